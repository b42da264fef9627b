//! Requests to the reference model.

ghost use Rattle.std.specs.Prelude.{◌<◌, ◌+◌, ◌^◌, IfSome};
ghost use Rattle.tp_plain.specs.Room.{first_of_change, count_of_change};

use crate::reference::Reference;
use std::alloc::AllocError;
use tp_model::{NbdError, Refusal};
use tp_plain::{Asked, Change, covers, form_error, need, refusal_of, touches};
use tp_script::{Operation, Request, flags_of, length_of};

/// No volume has a sector with this number.
const NO_SECTOR: u64 = 1_099_511_627_776;

/// The most sectors of a request that is served in one part.
const MOST_IN_PART: u64 = 2048;

/// Returns whether a request is served in parts if its client is extended.
fn is_long(request: &Request) -> bool {
    request.count > MOST_IN_PART
        && matches!(
            request.operation,
            Operation::Trim { .. } | Operation::Zero { .. }
        )
}

/// Returns the change that a request makes, if it makes one.
fn change_of(request: &Request) -> Option<Change>
    ensures { IfSome result (λ change. first_of_change change + count_of_change change < 2 ^ 60) }
{
    let (sector, count) = (request.sector % NO_SECTOR, request.count % NO_SECTOR);
    match request.operation {
        Operation::Read { .. } | Operation::Status { .. } => None,
        Operation::Trim { .. } => Some(Change::Trim { sector, count }),
        Operation::Write { .. } => Some(Change::Write { sector, count }),
        Operation::Zero { no_hole, .. } => Some(Change::WriteZeroes {
            sector,
            count,
            no_hole,
        }),
    }
}

impl Reference {
    /// Returns the error of a long request, whose length is valid.
    fn range_error(&self, request: &Request) -> Option<NbdError> {
        let end = request.sector.saturating_add(request.count);
        if end <= self.sectors(request.volume) {
            return None;
        }
        match request.operation {
            Operation::Zero { .. } => Some(NbdError::NoSpace),
            _ => Some(NbdError::Invalid),
        }
    }

    /// Returns the error of a client's request that does not depend on the pool's state: its range or its flags are not valid.
    pub fn form_error(&self, request: &Request, is_extended: bool) -> Option<NbdError> {
        if is_extended && is_long(request) {
            return self.range_error(request);
        }
        let (flags, kind) = flags_of(&request.operation);
        form_error(
            self.sectors(request.volume).saturating_mul(512),
            &tp_plain::Request {
                kind,
                flags,
                offset: request.sector.saturating_mul(512),
                bytes: length_of(request.count),
            },
        )
    }

    /// Returns how many data blocks a request needs.
    fn data_needed(&self, id: u32, change: Change) -> Result<usize, AllocError>
        requires { first_of_change change + count_of_change change < 2 ^ 60 }
    {
        let Some(volume) = self.volume(id) else {
            return Ok(0);
        };
        let labels = volume.label_options(self.alloc)?;
        let slots = self.slots()?;
        let sectors = self.block_sectors();
        if sectors == 0 || sectors > 2048 || labels.len() > 16_777_216 {
            return Ok(0);
        }
        Ok(need(sectors, &slots, id, &labels, change))
    }

    fn has_data_space(&self, id: u32, change: Change) -> Result<bool, AllocError>
        requires { first_of_change change + count_of_change change < 2 ^ 60 }
    {
        let needed = self
            .used_data()?
            .saturating_add(self.data_needed(id, change)?);
        Ok(needed as u64 <= self.geometry.data_blocks() as u64)
    }

    /// Returns why a request fails, if it does.
    pub fn request_refusal(&self, request: &Request) -> Result<Option<Refusal>, AllocError> {
        let Some(change) = change_of(request) else {
            return self.refused(request.volume, Asked::Read);
        };
        let sectors = request.count % NO_SECTOR;
        let asked = match request.operation {
            Operation::Trim { .. } => Asked::Trim { sectors },
            Operation::Zero { .. } => Asked::WriteZeroes { sectors },
            _ => Asked::Write { sectors },
        };
        let has_space = self.has_data_space(request.volume, change)?;
        Ok(refusal_of(&self.facts(request.volume, has_space)?, asked))
    }

    /// Gives a block a data block that it may change in its place, unless it has one.
    fn own(&mut self, place: usize, block: usize) -> Result<(), AllocError> {
        if self.is_exclusive(place, block) && !self.is_recently_unshared(place, block) {
            return Ok(());
        }
        let label = self.new_label();
        self.change_label(place, block, label)
    }

    fn is_mapped(&self, place: usize, block: usize) -> bool {
        match self.volumes.get(place) {
            Some(volume) => volume.label(block) != 0,
            None => false,
        }
    }

    fn unmap(&mut self, place: usize, block: usize) -> Result<(), AllocError> {
        if self.is_mapped(place, block) {
            self.change_label(place, block, 0)?;
        }
        let sectors = self.block_sectors();
        if let Some(volume) = self.volumes.get_mut(place) {
            volume.fill(sectors.saturating_mul(block as u64), sectors, 0);
        }
        Ok(())
    }

    /// Returns whether a request gives a block a data block of its own, and whether it unmaps the block.
    fn effect_on(&self, request: &Request, place: usize, block: usize) -> (bool, bool) {
        let sectors = self.block_sectors();
        let (sector, count) = (request.sector, request.count);
        if sectors > 2048 || block >= 16_777_216 || sector.saturating_add(count) > NO_SECTOR {
            return (false, false);
        }
        let is_touched = touches(sectors, sector, count, block as u64);
        let is_covered = covers(sectors, sector, count, block as u64) && count > 0;
        match request.operation {
            Operation::Read { .. } | Operation::Status { .. } => (false, false),
            Operation::Write { .. } => (is_touched, false),
            Operation::Trim { .. } => (false, is_covered),
            Operation::Zero { no_hole: true, .. } => (is_touched, false),
            Operation::Zero { no_hole: false, .. } => {
                let is_edge = is_touched && !is_covered;
                (is_edge && self.is_mapped(place, block), is_covered)
            }
        }
    }

    fn apply_to_block(
        &mut self,
        request: &Request,
        place: usize,
        block: usize,
    ) -> Result<(), AllocError> {
        let (owns, unmaps) = self.effect_on(request, place, block);
        if owns {
            self.own(place, block)?;
        }
        if unmaps {
            self.unmap(place, block)?;
        }
        Ok(())
    }

    fn fill(&mut self, request: &Request, place: usize) {
        let value = match request.operation {
            Operation::Write { value, .. } => value,
            Operation::Zero { .. } => 0,
            _ => return,
        };
        if let Some(volume) = self.volumes.get_mut(place) {
            volume.fill(request.sector, request.count, value);
        }
    }

    fn blocks_at(&self, place: usize) -> usize {
        match self.volumes.get(place) {
            Some(volume) => volume.blocks(),
            None => 0,
        }
    }

    /// Applies a request that does not fail.
    pub(crate) fn apply_request(&mut self, request: &Request) -> Result<(), AllocError> {
        let Some(place) = self.place_of(request.volume) else {
            return Ok(());
        };
        for block in 0..self.blocks_at(place) {
            self.apply_to_block(request, place, block)?;
        }
        self.fill(request, place);
        self.note_sizes();
        Ok(())
    }

    /// Counts the blocks that a request moves to new data blocks because they are recently unshared.
    fn count_moved(&self, request: &Request) -> usize {
        let Some(place) = self.place_of(request.volume) else {
            return 0;
        };
        let mut count: usize = 0;
        for block in 0..self.blocks_at(place) {
            let (owns, _) = self.effect_on(request, place, block);
            if owns && self.is_recently_unshared(place, block) {
                count = count.saturating_add(1);
            }
        }
        count
    }

    /// Returns whether a request commits before it changes anything: it needs data blocks that are free only after a commit.
    pub(crate) fn must_commit(
        &self,
        request: &Request,
        committed: &Reference,
    ) -> Result<bool, AllocError> {
        let Some(change) = change_of(request) else {
            return Ok(false);
        };
        let needed = self
            .data_needed(request.volume, change)?
            .saturating_add(self.count_moved(request));
        let taken = self
            .used_data()?
            .saturating_add(self.count_freed_since(committed)?)
            .saturating_add(needed);
        Ok(taken as u64 > self.geometry.data_blocks() as u64)
    }
}
