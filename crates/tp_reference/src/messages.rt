//! Messages to the reference model.

use crate::reference::Reference;
use crate::volume::{Volume, add_labels, copies_of};
use std::alloc::{AllocError, Global};
use tp_model::Refusal;
use tp_msg::Message;
use tp_plain::Asked;

/// The most sectors of a volume of the model. A larger one counts as a lack of memory.
const MOST_SECTORS: u64 = 4_194_304;

impl Reference {
    /// Returns why a message fails, if it does.
    pub fn message_refusal(&self, message: &Message) -> Result<Option<Refusal>, AllocError> {
        match *message {
            Message::CreateThin { id } => self.refused(id.number(), Asked::CreateThin),
            Message::CreateSnap { id, origin } => {
                let origin_exists = self.has(origin.number());
                self.refused(id.number(), Asked::CreateSnap { origin_exists })
            }
            Message::Delete { id } => {
                let is_held = self.is_open(id.number());
                self.refused(id.number(), Asked::Delete { is_held })
            }
            Message::SetTransactionId { current, .. } => {
                self.refused(0, Asked::SetTransactionId { current })
            }
            Message::Grow { id, blocks } => {
                let is_held = self.is_open(id.number());
                self.refused(id.number(), Asked::Grow { is_held, blocks })
            }
            Message::ReserveMetadataSnap => self.refused(0, Asked::ReserveMetadataSnap),
            Message::ReleaseMetadataSnap => self.refused(0, Asked::ReleaseMetadataSnap),
        }
    }

    fn insert(&mut self, volume: Volume) -> Result<(), AllocError> {
        let id = volume.id;
        let place = match self.volumes.iter().position(|other| other.id > id) {
            Some(place) => place,
            None => self.volumes.len(),
        };
        if place <= self.volumes.len() {
            self.volumes.insert(place, volume)?;
        }
        Ok(())
    }

    fn blank(&mut self, id: u32, blocks: u64) -> Result<Volume, AllocError> {
        let sectors = blocks.saturating_mul(self.block_sectors());
        if sectors > MOST_SECTORS {
            return Err(AllocError);
        }
        let root = self.new_label();
        blank_volume(self.alloc, id, root, blocks as usize, sectors as usize)
    }

    fn grow(&mut self, id: u32, blocks: u64) -> Result<(), AllocError> {
        let sectors = blocks.saturating_mul(self.block_sectors());
        if sectors > MOST_SECTORS {
            return Err(AllocError);
        }
        let mut has_changed = false;
        if let Some(place) = self.place_of(id) {
            if let Some(volume) = self.volumes.get_mut(place) {
                has_changed = volume.labels.len() as u64 != blocks;
                volume.labels.resize(blocks as usize, 0)?;
                volume.values.resize(sectors as usize, 0)?;
            }
        }
        if has_changed {
            self.change_tree();
        }
        Ok(())
    }

    fn remove(&mut self, id: u32) -> Result<(), AllocError> {
        if let Some(place) = self.place_of(id) {
            if place < self.volumes.len() {
                let volume = self.volumes.remove(place);
                volume.add_labels(&mut self.lost)?;
            }
        }
        self.change_tree();
        Ok(())
    }

    fn release(&mut self) -> Result<(), AllocError> {
        add_labels(&mut self.lost, &self.snapshot)?;
        self.snapshot_tree = 0;
        self.snapshot.clear();
        Ok(())
    }

    fn create(&mut self, id: u32) -> Result<(), AllocError> {
        let blocks = self.geometry.virtual_blocks() as u64;
        let volume = self.blank(id, blocks)?;
        self.insert(volume)?;
        self.change_tree();
        Ok(())
    }

    fn take_snapshot(&mut self, id: u32, origin: u32) -> Result<(), AllocError> {
        let copy = match self.volume(origin) {
            Some(volume) => Some(volume.copy(self.alloc)?),
            None => None,
        };
        if let Some(mut copy) = copy {
            copy.id = id;
            self.insert(copy)?;
        }
        self.change_tree();
        Ok(())
    }

    /// Applies a message that does not fail.
    pub(crate) fn apply_message(&mut self, message: &Message) -> Result<(), AllocError> {
        match *message {
            Message::CreateThin { id } => self.create(id.number())?,
            Message::CreateSnap { id, origin } => {
                self.take_snapshot(id.number(), origin.number())?;
            }
            Message::Delete { id } => self.remove(id.number())?,
            Message::SetTransactionId { next, .. } => self.transaction_id = next,
            Message::Grow { id, blocks } => self.grow(id.number(), blocks)?,
            Message::ReserveMetadataSnap => {
                self.snapshot_tree = self.tree;
                self.snapshot = copies_of(self.alloc, &self.volumes)?;
            }
            Message::ReleaseMetadataSnap => self.release()?,
        }
        self.note_sizes();
        Ok(())
    }
}

fn blank_volume(
    alloc: Global,
    id: u32,
    root: u32,
    blocks: usize,
    sectors: usize,
) -> Result<Volume, AllocError> {
    Ok(Volume {
        id,
        root,
        labels: Vec::from_elem(alloc, 0, blocks)?,
        values: Vec::from_elem(alloc, 0, sectors)?,
    })
}
