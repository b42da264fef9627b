//! The state of the reference model.

use crate::volume::{Volume, add_labels, add_roots, copies_of, count_label};
use std::alloc::{AllocError, Global};
use tp_model::{Geometry, Mode, Refusal};
use tp_plain::{Asked, Facts, Slot, refusal_of, used};

/// Added to a volume's number for its copy in the metadata snapshot.
const IN_SNAPSHOT: u32 = 0x0100_0000;

/// The most entries of a leaf of a volume's tree, and of the tree of volumes.
const MAPPED_IN_LEAF: usize = 252;

const VOLUMES_IN_LEAF: usize = 126;

/// A pool without a disk.
#[derive(Drop)]
pub struct Reference {
    pub(crate) alloc: Global,
    pub(crate) geometry: Geometry,
    pub(crate) mode: Mode,
    pub(crate) needs_check: bool,
    pub(crate) transaction_id: u64,
    /// In the order of their numbers.
    pub(crate) volumes: Vec<Volume>,
    /// The volumes of the metadata snapshot.
    pub(crate) snapshot: Vec<Volume>,
    /// The labels of the roots of the tree of volumes, now and in the metadata snapshot. 0: there is no snapshot.
    pub(crate) tree: u32,
    pub(crate) snapshot_tree: u32,
    next_label: u32,
    /// The labels that a block lost since the last commit: what has such a label must not be changed in its place.
    pub(crate) lost: Vec<u32>,
    /// The volumes that connections have open, each as often as it is open.
    open: Vec<u32>,
    /// Whether each tree was one leaf at all times, so that the model counts the metadata blocks.
    counts_metadata: bool,
    /// The metadata blocks in use that the pool reported, for pools whose blocks the model does not count.
    reported_metadata: u32,
}

/// Counts the different numbers of a list.
fn count_different(numbers: &[u32]) -> usize {
    let mut count: usize = 0;
    for (place, number) in numbers.iter().enumerate() {
        let before = numbers.get(..place).unwrap_or(&[]);
        if !before.contains(number) {
            count = count.saturating_add(1);
        }
    }
    count
}

impl Reference {
    /// Returns an empty pool.
    pub fn empty(alloc: Global, geometry: Geometry) -> Reference {
        Reference {
            alloc,
            geometry,
            mode: Mode::Writable,
            needs_check: false,
            transaction_id: 0,
            volumes: Vec::new(alloc),
            snapshot: Vec::new(alloc),
            tree: 1,
            snapshot_tree: 0,
            next_label: 1,
            lost: Vec::new(alloc),
            open: Vec::new(alloc),
            counts_metadata: true,
            reported_metadata: 0,
        }
    }

    /// Returns a copy of the pool.
    pub fn copy(&self) -> Result<Reference, AllocError> {
        Ok(Reference {
            alloc: self.alloc,
            geometry: self.geometry,
            mode: self.mode,
            needs_check: self.needs_check,
            transaction_id: self.transaction_id,
            volumes: copies_of(self.alloc, &self.volumes)?,
            snapshot: copies_of(self.alloc, &self.snapshot)?,
            tree: self.tree,
            snapshot_tree: self.snapshot_tree,
            next_label: self.next_label,
            lost: Vec::from_slice(self.alloc, &self.lost)?,
            open: Vec::from_slice(self.alloc, &self.open)?,
            counts_metadata: self.counts_metadata,
            reported_metadata: self.reported_metadata,
        })
    }

    pub(crate) fn place_of(&self, id: u32) -> Option<usize> {
        self.volumes.iter().position(|volume| volume.id == id)
    }

    /// Returns a volume.
    pub fn volume(&self, id: u32) -> Option<&Volume> {
        self.volumes.get(self.place_of(id)?)
    }

    /// Returns all volumes, in the order of their numbers.
    pub fn volumes(&self) -> &[Volume] {
        &self.volumes
    }

    /// Returns a volume of the metadata snapshot.
    pub fn in_snapshot(&self, id: u32) -> Option<&Volume> {
        self.snapshot.iter().find(|volume| volume.id == id)
    }

    /// Returns all volumes of the metadata snapshot.
    pub fn snapshot_volumes(&self) -> &[Volume] {
        &self.snapshot
    }

    /// Returns whether a volume exists.
    pub fn has(&self, id: u32) -> bool {
        self.volume(id).is_some()
    }

    /// Returns whether there is a metadata snapshot.
    pub fn has_snapshot(&self) -> bool {
        self.snapshot_tree != 0
    }

    pub(crate) fn block_sectors(&self) -> u64 {
        self.geometry.block_sectors() as u64
    }

    /// Returns how many sectors a volume has, 0 if it does not exist.
    pub fn sectors(&self, id: u32) -> u64 {
        match self.volume(id) {
            Some(volume) => (volume.blocks() as u64).saturating_mul(self.block_sectors()),
            None => 0,
        }
    }

    /// A connection opens a volume.
    pub fn open_volume(&mut self, id: u32) -> Result<(), AllocError> {
        self.open.push(id)?;
        Ok(())
    }

    /// A connection closes a volume that it opened.
    pub fn close_volume(&mut self, id: u32) {
        if let Some(place) = self.open.iter().position(|open| *open == id) {
            if place < self.open.len() {
                self.open.swap_remove(place);
            }
        }
    }

    pub(crate) fn is_open(&self, id: u32) -> bool {
        self.open.contains(&id)
    }

    pub(crate) fn mode_after_opening(&self) -> Mode {
        if self.needs_check {
            Mode::ReadOnly
        } else {
            Mode::Writable
        }
    }

    /// The pool is opened again: no connection has a volume open.
    pub fn reopen(&mut self, is_read_only: bool) {
        self.open.clear();
        self.mode = if is_read_only {
            Mode::ReadOnly
        } else {
            self.mode_after_opening()
        };
    }

    /// Clears the flag by which the pool needs a check.
    pub(crate) fn clear_needs_check(&mut self) {
        self.needs_check = false;
    }

    /// The pool is read-only from now on, and needs a check: it ran out of metadata space.
    pub(crate) fn run_out(&mut self) {
        self.needs_check = true;
        self.mode = Mode::ReadOnly;
    }

    /// Returns a label that was never used.
    pub(crate) fn new_label(&mut self) -> u32 {
        self.next_label = self.next_label.wrapping_add(1);
        self.next_label
    }

    /// The tree of volumes gets a root of its own.
    pub(crate) fn change_tree(&mut self) {
        let tree = self.new_label();
        self.tree = tree;
    }

    /// The tree of a volume gets a root of its own.
    pub(crate) fn change_volume(&mut self, place: usize) {
        let root = self.new_label();
        if let Some(volume) = self.volumes.get_mut(place) {
            volume.root = root;
        }
        self.change_tree();
    }

    /// Returns all mappings, also those of the metadata snapshot.
    pub(crate) fn slots(&self) -> Result<Vec<Slot>, AllocError> {
        let mut all = Vec::new(self.alloc);
        for volume in &self.volumes {
            volume.add_slots(&mut all, 0)?;
        }
        for volume in &self.snapshot {
            volume.add_slots(&mut all, IN_SNAPSHOT)?;
        }
        Ok(all)
    }

    pub(crate) fn used_data(&self) -> Result<usize, AllocError> {
        let mut all = Vec::new(self.alloc);
        add_labels(&mut all, &self.volumes)?;
        add_labels(&mut all, &self.snapshot)?;
        Ok(used(&all))
    }

    /// Counts the metadata blocks in use of a pool whose trees are leaves.
    fn counted_metadata(&self) -> Result<u32, AllocError> {
        let mut roots = Vec::new(self.alloc);
        roots.push(self.tree)?;
        if self.snapshot_tree != 0 {
            roots.push(self.snapshot_tree)?;
        }
        add_roots(&mut roots, &self.volumes)?;
        add_roots(&mut roots, &self.snapshot)?;
        let nodes = u32::try_from(count_different(&roots)).unwrap_or(u32::MAX);
        Ok(nodes.saturating_add(self.geometry.fixed_part()))
    }

    pub(crate) fn used_metadata(&self) -> Result<u32, AllocError> {
        if self.counts_metadata {
            self.counted_metadata()
        } else {
            Ok(self.reported_metadata)
        }
    }

    /// Takes the number of metadata blocks in use that the pool reports.
    pub fn set_reported_metadata(&mut self, reported: u32) {
        self.reported_metadata = reported;
    }

    /// Returns whether the model counts the metadata blocks: each tree was one leaf at all times.
    pub fn counts_metadata(&self) -> bool {
        self.counts_metadata
    }

    /// Ends the counting of metadata blocks if a tree has more than one leaf.
    pub(crate) fn note_sizes(&mut self) {
        if self.volumes.len() > VOLUMES_IN_LEAF {
            self.counts_metadata = false;
        }
        for volume in &self.volumes {
            if volume.mapped() > MAPPED_IN_LEAF {
                self.counts_metadata = false;
            }
        }
    }

    /// Counts the blocks that are mapped to this data block.
    fn count_label(&self, label: u32) -> usize {
        count_label(&self.volumes, label).saturating_add(count_label(&self.snapshot, label))
    }

    fn label_at(&self, place: usize, block: usize) -> u32 {
        match self.volumes.get(place) {
            Some(volume) => volume.label(block),
            None => 0,
        }
    }

    /// Returns whether a block of a volume has a data block that nothing else maps.
    pub(crate) fn is_exclusive(&self, place: usize, block: usize) -> bool {
        let label = self.label_at(place, block);
        label != 0 && self.count_label(label) == 1
    }

    /// Returns whether a block of a volume has a data block that nothing else maps.
    pub(crate) fn has_own(&self, id: u32, block: usize) -> bool {
        match self.place_of(id) {
            Some(place) => self.is_exclusive(place, block),
            None => false,
        }
    }

    /// All changes are durable.
    pub(crate) fn commit(&mut self) {
        self.lost.clear();
    }

    /// Sets the label of a block, which loses the one that it has.
    pub(crate) fn change_label(
        &mut self,
        place: usize,
        block: usize,
        label: u32,
    ) -> Result<(), AllocError> {
        if let Some(volume) = self.volumes.get_mut(place) {
            let old = volume.label(block);
            volume.set_label(block, label);
            if old != 0 {
                self.lost.push(old)?;
            }
        }
        self.change_volume(place);
        Ok(())
    }

    /// Returns whether a block has a data block that nothing else maps, and another block lost it since the last commit.
    pub(crate) fn is_recently_unshared(&self, place: usize, block: usize) -> bool {
        let label = self.label_at(place, block);
        self.is_exclusive(place, block) && self.lost.contains(&label)
    }

    /// Counts the data blocks that are in use in a committed state, and not in this one: they are not free before the next
    /// commit.
    pub(crate) fn count_freed_since(&self, committed: &Reference) -> Result<usize, AllocError> {
        let mut freed = Vec::new(self.alloc);
        for slot in committed.slots()? {
            if self.count_label(slot.label) == 0 {
                freed.push(slot.label)?;
            }
        }
        Ok(used(&freed))
    }

    /// Returns the facts by which a call on this volume is judged.
    pub(crate) fn facts(&self, id: u32, has_data_room: bool) -> Result<Facts, AllocError> {
        let used = self.used_metadata()?;
        let blocks = match self.volume(id) {
            Some(volume) => volume.blocks() as u64,
            None => 0,
        };
        Ok(Facts {
            mode: self.mode,
            exists: self.has(id),
            blocks,
            devices: u32::try_from(self.volumes.len()).unwrap_or(u32::MAX),
            free_metadata: self.geometry.metadata_blocks().saturating_sub(used),
            has_data_room,
            transaction_id: self.transaction_id,
            is_held: self.has_snapshot(),
            has_copy: self.in_snapshot(id).is_some(),
        })
    }

    pub(crate) fn refused(&self, id: u32, asked: Asked) -> Result<Option<Refusal>, AllocError> {
        Ok(refusal_of(&self.facts(id, true)?, asked))
    }

    /// Returns why a read of the metadata snapshot fails, if it does.
    pub fn snapshot_refusal(&self, id: u32) -> Result<Option<Refusal>, AllocError> {
        self.refused(id, Asked::HeldRead)
    }

    /// Returns why a flush fails, if it does.
    pub fn flush_refusal(&self) -> Result<Option<Refusal>, AllocError> {
        self.refused(0, Asked::Flush)
    }
}
