//! The states that a crash may leave.

use crate::found::{Found, FoundVolume};
use crate::reference::Reference;
use crate::volume::Volume;
use std::alloc::{AllocError, Global};
use tp_model::Refusal;
use tp_msg::Message;
use tp_script::{Operation, Request};

/// A call that changes a pool, or commits.
#[derive(Clone, Copy)]
pub enum Step<'a> {
    Message(&'a Message),
    Request(&'a Request),
    Flush,
}

/// A value that a request gave to sectors when the history had this many states.
#[derive(Clone, Copy)]
struct Given {
    states: usize,
    volume: u32,
    sector: u64,
    count: u64,
    value: u8,
}

/// The states of a pool since the last commit, the last of which is the current one. A crash leaves one of them, except that
/// a sector of a block that nothing else maps may have a value that it was given later.
#[derive(Drop)]
pub struct History {
    alloc: Global,
    states: Vec<Reference>,
    given: Vec<Given>,
    /// Whether a crash may leave an image without a pool: a pool is being formatted.
    may_be_blank: bool,
}

impl History {
    /// Returns the history whose only state is this one.
    pub fn only(alloc: Global, reference: Reference) -> Result<History, AllocError> {
        let mut states = Vec::new(alloc);
        states.push(reference)?;
        Ok(History {
            alloc,
            states,
            given: Vec::new(alloc),
            may_be_blank: false,
        })
    }

    /// Returns a copy of the history.
    pub fn copy(&self) -> Result<History, AllocError> {
        let mut states = Vec::new(self.alloc);
        for state in &self.states {
            states.push(state.copy()?)?;
        }
        Ok(History {
            alloc: self.alloc,
            states,
            given: Vec::from_slice(self.alloc, &self.given)?,
            may_be_blank: self.may_be_blank,
        })
    }

    /// Returns the current state.
    pub fn now(&self) -> Option<&Reference> {
        self.states.last()
    }

    /// Returns the current state.
    pub fn now_mut(&mut self) -> Option<&mut Reference> {
        self.states.last_mut()
    }

    /// Returns whether a crash may leave another state than the current one.
    pub fn has_several_states(&self) -> bool {
        self.states.len() > 1
    }

    /// All changes are durable: only the current state is left.
    pub fn commit(&mut self) {
        self.given.clear();
        self.may_be_blank = false;
        if self.states.len() > 1 {
            let last = self.states.len() - 1;
            self.states.swap(0, last);
            self.states.truncate(1);
        }
        if let Some(now) = self.states.last_mut() {
            now.commit();
        }
    }

    /// From now on a crash may also leave this state.
    pub fn allow(&mut self, reference: Reference) -> Result<(), AllocError> {
        self.states.push(reference)?;
        Ok(())
    }

    /// From now on a crash may also leave the current state without the flag by which the pool needs a check.
    pub fn allow_cleared(&mut self) -> Result<(), AllocError> {
        let mut cleared = match self.states.last() {
            Some(now) => now.copy()?,
            None => return Ok(()),
        };
        cleared.clear_needs_check();
        self.allow(cleared)
    }

    /// From now on a crash may also leave an image without a pool.
    pub fn allow_blank(&mut self) {
        self.may_be_blank = true;
    }

    /// Returns why a step fails, if it does.
    pub fn refusal(&self, step: &Step<'_>) -> Result<Option<Refusal>, AllocError> {
        let Some(now) = self.states.last() else {
            return Ok(None);
        };
        match *step {
            Step::Message(message) => now.message_refusal(message),
            Step::Request(request) => now.request_refusal(request),
            Step::Flush => now.flush_refusal(),
        }
    }

    fn note_given(&mut self, request: &Request) -> Result<(), AllocError> {
        let value = match request.operation {
            Operation::Write { value, .. } => value,
            Operation::Zero { .. } => 0,
            _ => return Ok(()),
        };
        self.given.push(Given {
            states: self.states.len(),
            volume: request.volume,
            sector: request.sector,
            count: request.count,
            value,
        })?;
        Ok(())
    }

    /// Applies a step to the current state.
    fn apply_now(&mut self, step: &Step<'_>) -> Result<(), AllocError> {
        let Some(now) = self.states.last_mut() else {
            return Ok(());
        };
        match *step {
            Step::Message(message) => now.apply_message(message)?,
            Step::Request(request) => now.apply_request(request)?,
            Step::Flush => {}
        }
        Ok(())
    }

    /// A step succeeded and committed: only the state after it is left.
    pub fn take_committed(&mut self, step: &Step<'_>) -> Result<(), AllocError> {
        self.apply_now(step)?;
        self.commit();
        Ok(())
    }

    /// Returns whether a step commits before it changes anything.
    fn must_commit(&self, step: &Step<'_>) -> Result<bool, AllocError> {
        match (step, self.states.first(), self.states.last()) {
            (Step::Request(request), Some(committed), Some(now)) => {
                now.must_commit(request, committed)
            }
            _ => Ok(false),
        }
    }

    /// A step changed the pool without a commit: a crash may leave the state after it too.
    pub fn take(&mut self, step: &Step<'_>) -> Result<(), AllocError> {
        if self.must_commit(step)? {
            self.commit();
        }
        self.take_failed(step)
    }

    /// A step failed, and the pool with it: a crash may leave the state before it or after it.
    pub fn take_failed(&mut self, step: &Step<'_>) -> Result<(), AllocError> {
        let next = match self.states.last() {
            Some(now) => now.copy()?,
            None => return Ok(()),
        };
        if let Step::Request(request) = *step {
            self.note_given(request)?;
        }
        self.states.push(next)?;
        self.apply_now(step)
    }

    /// The pool ran out of metadata space: it is read-only, and that is durable.
    pub fn run_out(&mut self) {
        if let Some(now) = self.states.last_mut() {
            now.run_out();
        }
        self.commit();
    }

    /// Returns whether a sector was given this value after the state of this number.
    fn is_given(&self, state: usize, volume: u32, sector: u64, value: u8) -> bool {
        self.given.iter().any(|given| {
            given.states > state
                && given.volume == volume
                && given.value == value
                && sector >= given.sector
                && sector.wrapping_sub(given.sector) < given.count
        })
    }

    /// Returns whether a crash may leave this value in a sector of a volume.
    fn may_have(&self, state: usize, volume: &Volume, sector: usize, value: u8) -> bool {
        if volume.values.get(sector).copied() == Some(value) {
            return true;
        }
        let Some(reference) = self.states.get(state) else {
            return false;
        };
        let block = sector / (reference.block_sectors() as usize).max(1);
        self.is_given(state, volume.id, sector as u64, value) && reference.has_own(volume.id, block)
    }

    /// Returns whether a crash may leave these values in a volume.
    fn may_have_all(&self, state: usize, volume: &Volume, values: &[u8]) -> bool {
        if volume.values.len() != values.len() {
            return false;
        }
        if volume.values.as_slice() == values {
            return true;
        }
        for sector in 0..values.len() {
            if !self.may_have(state, volume, sector, values[sector]) {
                return false;
            }
        }
        true
    }

    /// Returns whether what was found of a volume is this volume of a state. `line`: its status line.
    fn is_volume_of(
        &self,
        state: usize,
        volume: &Volume,
        found: &FoundVolume,
        line: &[u8],
    ) -> bool {
        volume.id == found.id
            && line == found.line.as_slice()
            && self.may_have_all(state, volume, found.values.as_slice())
    }

    /// Returns whether the volumes that were found are those of this state.
    fn are_volumes_of(&self, state: usize, found: &Found) -> Result<bool, AllocError> {
        let Some(reference) = self.states.get(state) else {
            return Ok(false);
        };
        if reference.volumes.len() != found.volumes.len() {
            return Ok(false);
        }
        for (volume, found) in reference.volumes.iter().zip(found.volumes.iter()) {
            let line = reference.volume_line(volume)?;
            if !self.is_volume_of(state, volume, found, line.as_bytes()) {
                return Ok(false);
            }
        }
        Ok(true)
    }

    /// Returns whether a crash may leave what was found, by the state of this number.
    fn is_of(&self, state: usize, found: &Found) -> Result<bool, AllocError> {
        let Some(reference) = self.states.get(state) else {
            return Ok(false);
        };
        let line = reference.line_after_opening(found.line.as_slice())?;
        if line.as_bytes() != found.line.as_slice() {
            return Ok(false);
        }
        Ok(are_copies(&reference.snapshot, &found.snapshot) && self.are_volumes_of(state, found)?)
    }

    /// Returns the state that was found after an opening, with the values that were found, if a crash may leave it.
    pub fn find(&self, found: &Found) -> Result<Option<Reference>, AllocError> {
        if found.is_strange || found.is_blank {
            return Ok(None);
        }
        for state in 0..self.states.len() {
            if self.is_of(state, found)? {
                return self.found_state(state, found);
            }
        }
        Ok(None)
    }

    fn found_state(&self, state: usize, found: &Found) -> Result<Option<Reference>, AllocError> {
        let Some(reference) = self.states.get(state) else {
            return Ok(None);
        };
        let mut reference = reference.copy()?;
        for (volume, found) in reference.volumes.iter_mut().zip(found.volumes.iter()) {
            volume.set_values(found.values.as_slice());
        }
        reference.commit();
        reference.reopen(false);
        Ok(Some(reference))
    }

    /// Returns whether a crash may leave what was found.
    pub fn allows(&self, found: &Found) -> Result<bool, AllocError> {
        if found.is_blank {
            return Ok(self.may_be_blank);
        }
        Ok(self.find(found)?.is_some())
    }

    /// Returns the numbers of all volumes that a metadata snapshot of any state has.
    pub fn snapshot_ids(&self) -> Result<Vec<u32>, AllocError> {
        let mut ids = Vec::new(self.alloc);
        for state in &self.states {
            add_ids(&mut ids, &state.snapshot)?;
        }
        Ok(ids)
    }
}

fn add_ids(ids: &mut Vec<u32>, volumes: &[Volume]) -> Result<(), AllocError> {
    for volume in volumes {
        if !ids.contains(&volume.id) {
            ids.push(volume.id)?;
        }
    }
    Ok(())
}

/// Returns whether the volumes of a metadata snapshot have what was found of them. A read of the snapshot ends at the size of
/// the pool's own volumes.
fn are_copies(volumes: &[Volume], found: &[FoundVolume]) -> bool {
    if volumes.len() != found.len() {
        return false;
    }
    for (volume, found) in volumes.iter().zip(found.iter()) {
        if volume.id != found.id || !volume.values.starts_with(found.values.as_slice()) {
            return false;
        }
    }
    true
}
