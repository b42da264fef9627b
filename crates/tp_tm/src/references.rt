//! The names of blocks by reference: metadata blocks first, then data blocks.

ghost use Rattle.std.specs.Prelude.{◌≡◌, ◌+◌, ◌-◌, ◌<◌, ◌≤◌, ◌^◌, Err, IfErr, IsTrue, OnOk, IfOk, ◌↔◌, length, not, slice_index};
ghost use Rattle.tp_refs.specs.Store.{first_named};
ghost use Rattle.tp_tm.specs.Tm.{IsRaised, IsRecounted, OnlyFewer, counts_now, data_counts, metadata_counts};

use crate::Tm;
use tp_counts::StoreError;
use tp_layout::TreeKind;

impl Tm {
    /// The reference that a value in a node of this kind and level is, or `Damaged` exactly where it is none of this pool.
    pub fn reference(&self, kind: TreeKind, level: u32, value: u64) -> Result<u64, StoreError>
        ensures found { IfOk result (λ reference. reference ≡ first_named self.now.geometry.metadata_blocks kind level + value) }
        ensures inside { IfOk result (λ reference. reference < self.now.geometry.metadata_blocks + self.now.geometry.data_blocks) }
        ensures err { IfErr result (λ error. (error ≡ StoreError.Damaged)
            × (self.now.geometry.metadata_blocks + self.now.geometry.data_blocks ≤ first_named self.now.geometry.metadata_blocks kind level + value)) }
        ensures sized { length (counts_now self.now) ≡ self.now.geometry.metadata_blocks + self.now.geometry.data_blocks }
    {
        let nodes = self.geometry.metadata_blocks() as u64;
        let all = nodes + self.geometry.data_blocks() as u64;
        let first = first_named(nodes, kind, level);
        if value >= all - first {
            return Err(StoreError::Damaged);
        }
        Ok(first + value)
    }

    /// How often a block is named now, by reference: metadata blocks first, then data blocks.
    pub fn count(&self, reference: u64) -> u32
        requires inside { reference < self.now.geometry.metadata_blocks + self.now.geometry.data_blocks }
        ensures value { result ≡ slice_index (counts_now self.now) reference }
        ensures sized { length (counts_now self.now) ≡ self.now.geometry.metadata_blocks + self.now.geometry.data_blocks }
    {
        let nodes = self.geometry.metadata_blocks() as u64;
        if reference < nodes {
            self.metadata_counts.now(reference)
        } else {
            self.data_counts.now(reference - nodes)
        }
    }

    /// One name fewer of a block; whether it is still named. `Damaged` exactly where it is not named.
    pub(crate) fn unname(&mut self, reference: u64) -> Result<bool, StoreError>
        requires inside { reference < self.old.geometry.metadata_blocks + self.old.geometry.data_blocks }
        ensures recounted { OnOk result (IsRecounted self.old self.new reference (slice_index (counts_now self.old) reference - 1)) }
        ensures still { IfOk result (λ named. IsTrue named ↔ (1 < slice_index (counts_now self.old) reference)) }
        ensures was { OnOk result (0 < slice_index (counts_now self.old) reference) }
        ensures err { IfErr result (λ error. (error ≡ StoreError.Damaged) × (slice_index (counts_now self.old) reference ≡ 0) × (self.new ≡ self.old)) }
        ensures fewer { OnlyFewer self.old self.new }
        ensures sized { length (counts_now self.old) ≡ self.old.geometry.metadata_blocks + self.old.geometry.data_blocks }
    {
        let count = self.count(reference);
        if count == 0 {
            return Err(StoreError::Damaged);
        }
        self.lower(reference);
        Ok(count > 1)
    }

    /// One name fewer of a block, by reference.
    fn lower(&mut self, reference: u64)
        requires inside { reference < self.old.geometry.metadata_blocks + self.old.geometry.data_blocks }
        requires named { 0 < slice_index (counts_now self.old) reference }
        ensures recounted { IsRecounted self.old self.new reference (slice_index (counts_now self.old) reference - 1) }
        ensures fewer { OnlyFewer self.old self.new }
    {
        let nodes = self.geometry.metadata_blocks() as u64;
        if reference < nodes {
            self.metadata_counts.dec(reference);
        } else {
            self.data_counts.dec(reference - nodes);
        }
    }

    /// One name more of a block that is named, by reference. `Damaged` exactly where it is not, or where its count is the
    /// greatest `u32`.
    pub(crate) fn raise(&mut self, reference: u64) -> Result<(), StoreError>
        requires inside { reference < self.old.geometry.metadata_blocks + self.old.geometry.data_blocks }
        ensures recounted { OnOk result (IsRecounted self.old self.new reference (slice_index (counts_now self.old) reference + 1)) }
        ensures err { IfErr result (λ error. (error ≡ StoreError.Damaged) × ((0 < slice_index (counts_now self.old) reference) → slice_index (counts_now self.old) reference + 1 < 2 ^ 32 → ⊥)) }
        ensures raised { IsRaised self.old self.new }
        ensures sized { length (counts_now self.old) ≡ self.old.geometry.metadata_blocks + self.old.geometry.data_blocks }
    {
        let count = self.count(reference);
        if count == 0 || count == u32::MAX {
            return Err(StoreError::Damaged);
        }
        self.increase(reference);
        Ok(())
    }

    /// One name more of a block, by reference.
    fn increase(&mut self, reference: u64)
        requires inside { reference < self.old.geometry.metadata_blocks + self.old.geometry.data_blocks }
        requires named { 0 < slice_index (counts_now self.old) reference }
        requires room { slice_index (counts_now self.old) reference + 1 < 2 ^ 32 }
        ensures recounted { IsRecounted self.old self.new reference (slice_index (counts_now self.old) reference + 1) }
        ensures raised { IsRaised self.old self.new }
    {
        let nodes = self.geometry.metadata_blocks() as u64;
        if reference < nodes {
            self.metadata_counts.inc(reference);
        } else {
            self.data_counts.inc(reference - nodes);
        }
    }
}

/// The reference to block 0 of the part whose blocks such a node names, with so many metadata blocks.
fn first_named(nodes: u64, kind: TreeKind, level: u32) -> u64
    ensures value { result ≡ first_named nodes kind level }
    ensures most { result ≤ nodes }
{
    match kind {
        TreeKind::Mapping => { if level > 0 { 0 } else { nodes } }
        TreeKind::Device => 0,
    }
}
