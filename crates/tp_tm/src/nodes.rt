//! Nodes: read, taken, written, named once more, and traded for an open block.

ghost use Rattle.std.specs.Prelude.{◌≡◌, ◌+◌, ◌-◌, ◌<◌, ◌≤◌, ◌^◌, ◌++◌, ◌∷◌, ℕ, List, Err, IfErr, IsTrue, OnOk, IfOk, ◌↔◌, is_err, length, not, set, slice_index};
ghost use Rattle.tp_model.specs.Geometry.{metadata_sector, sectors_of_image};
ghost use Rattle.tp_counts.specs.StoreErrors.{is_fault};
ghost use Rattle.tp_model.specs.Disk.{DiskState, FaultHasCause, IsSameDisk, after_read, seen};
ghost use Rattle.tp_model.specs.DiskStops.{LeavesOutside};
ghost use Rattle.tp_layout.specs.Node.{IsNode, NodeValue, node_bytes};
ghost use Rattle.tp_layout.specs.Value.{node_value};
ghost use Rattle.tp_image.specs.Nodes.{IsNodeAt, block_at};
ghost use Rattle.tp_counts.specs.Counts.{IsFree};
ghost use Rattle.tp_refs.specs.Store.{MayName, Store, children, count_of, node_at, node_from, with_count, with_node};
ghost use Rattle.tp_refs.specs.Balance.{HasRoomFor, occurrences};
ghost use Rattle.tp_tm.specs.Tm.{IsRecounted, OnlyFewer, counts_now, free_data, free_metadata, metadata_counts, used_metadata};
ghost use Rattle.tp_tm.specs.Keeps.{LeavesKept};
ghost use Rattle.tp_tm.specs.Holds.{Holds, IsRankOf, Shadowed};

use crate::{BLOCK, Tm};
use tp_counts::StoreError;
use tp_disk::{Disk, Fault};
use tp_layout::{BlockBytes, Node, NodeView, TreeKind, write_node};
use tp_model::Mb;

impl Tm {
    /// The node of this kind in a block, put into `bytes` as the bytes that spell it. After an `Err`, `bytes` may hold
    /// anything.
    ///
    /// It refuses with `Fault` where the read failed, and with `Damaged` where the block spells no such node.
    pub fn read<D: Disk>(
        &self,
        disk: &mut D,
        block: Mb,
        kind: TreeKind,
        bytes: &mut BlockBytes,
    ) -> Result<(), StoreError>
        requires disk { sectors_of_image self.now.geometry ≤ (D.state disk.old).size }
        requires inside { block < self.now.geometry.metadata_blocks }
        ensures spelled { OnOk result ((n : NodeValue) × (IsNode n × (n.kind ≡ kind) × (n.own ≡ block) × (bytes.new ≡ node_bytes n))) }
        ensures found { OnOk result (IsTrue (D.state disk.old).is_honest → bytes.new ≡ block_at (seen (D.state disk.old).cells) block) }
        ensures damaged { result ≡ Err StoreError.Damaged → IsTrue (D.state disk.old).is_honest
            → (n : NodeValue) → IsNodeAt (seen (D.state disk.old).cells) block n → n.kind ≡ kind → ⊥ }
        ensures state { D.state disk.new ≡ after_read (not (is_fault result)) (D.state disk.old) }
    {
        disk.read(block.first_sector(), bytes)?;
        NodeView::read(bytes, block, kind)?;
        Ok(())
    }

    /// Takes a free metadata block, the least one. It is open: its owner is to write it.
    pub fn fresh(&mut self) -> Mb
        requires room { 0 < free_metadata self.old }
        ensures inside { result < self.old.geometry.metadata_blocks }
        ensures now { slice_index self.old.metadata_now result ≡ 0 }
        ensures kept { slice_index self.old.metadata_kept result ≡ 0 }
        ensures least { (b : ℕ) → b < result → IsFree (metadata_counts self.old) b → ⊥ }
        ensures taken { self.new ≡ record self.old { metadata_now = set self.old.metadata_now result 1 } }
        ensures holds { (disk : DiskState) (opens held : List ℕ) (s : Store) → Holds self.old disk opens held s
            → Holds self.new disk (result ∷ opens) held (with_count s result 1) }
        ensures unnamed { (disk : DiskState) (opens held : List ℕ) (s : Store) → Holds self.old disk opens held s → count_of s result ≡ 0 }
        ensures room { free_metadata self.old ≤ free_metadata self.new + 1 }
        ensures used { used_metadata self.new ≤ used_metadata self.old + 1 }
    {
        let block = self.find_free();
        self.name(block);
        block
    }

    /// The least metadata block that is free. It is not taken by that.
    fn find_free(&mut self) -> Mb
        requires room { 0 < free_metadata self.old }
        ensures inside { result < self.old.geometry.metadata_blocks }
        ensures now { slice_index self.old.metadata_now result ≡ 0 }
        ensures kept { slice_index self.old.metadata_kept result ≡ 0 }
        ensures least { (b : ℕ) → b < result → IsFree (metadata_counts self.old) b → ⊥ }
        ensures unchanged { self.new ≡ self.old }
    {
        let Some(block) = self.metadata_counts.find_free() else {
            unreachable!();
        };
        Mb::new(block as u32)
    }

    /// One name more of a metadata block.
    fn name(&mut self, block: Mb)
        requires inside { block < self.old.geometry.metadata_blocks }
        requires room { slice_index self.old.metadata_now block + 1 < 2 ^ 32 }
        ensures more { self.new ≡ record self.old { metadata_now = set self.old.metadata_now block (slice_index self.old.metadata_now block + 1) } }
        ensures long { length self.old.metadata_now ≡ self.old.geometry.metadata_blocks }
        ensures kept_long { length self.old.metadata_kept ≡ self.old.geometry.metadata_blocks }
    {
        self.metadata_counts.inc(block.number() as u64);
    }

    /// Writes an open block, which is then closed: what its node names is no longer held. The node's own number says
    /// which block it is.
    ///
    /// After an `Err` the block may hold anything, and it is open still. At any moment a stop leaves all other blocks as
    /// before.
    pub fn write<D: Disk>(&mut self, disk: &mut D, node: &Node) -> Result<(), Fault>
        requires disk { sectors_of_image self.old.geometry ≤ (D.state disk.old).size }
        requires inside { node.now.own < self.old.geometry.metadata_blocks }
        requires unkept { slice_index self.old.metadata_kept node.now.own ≡ 0 }
        requires node { IsNode (node_value node.now) }
        ensures holds { OnOk result ((opens held : List ℕ) (s : Store)
            → Holds self.old (D.state disk.old) (node.now.own ∷ opens) (children (node_from self.old.geometry.metadata_blocks (node_value node.now)) ++ held) s
            → ((c : ℕ) → 0 < occurrences c (children (node_from self.old.geometry.metadata_blocks (node_value node.now)))
            → MayName (node_from self.old.geometry.metadata_blocks (node_value node.now)).rank (node_at s c).rank)
            → Holds self.new (D.state disk.new) opens (node.now.own ∷ held) (with_node s node.now.own (node_from self.old.geometry.metadata_blocks (node_value node.now)))) }
        ensures open { (opens held : List ℕ) (s : Store) → Holds self.old (D.state disk.old) (node.now.own ∷ opens) held s
            → Holds self.new (D.state disk.new) (node.now.own ∷ opens) held s }
        ensures unchanged { self.new ≡ self.old }
        ensures any_moment { LeavesOutside (metadata_sector node.now.own) 8 (D.state disk.old) (D.state disk.new) }
        ensures any_moment_kept { LeavesKept self.old.metadata_kept (D.state disk.old) (D.state disk.new) }
        ensures same_disk { IsSameDisk (D.state disk.old) (D.state disk.new) }
        ensures cause { FaultHasCause (is_err result) (D.state disk.old) (D.state disk.new) }
        ensures flushes { (D.state disk.new).flushes ≡ (D.state disk.old).flushes }
    {
        let _ = &self.geometry;
        let mut bytes = [0; BLOCK];
        write_node(node, &mut bytes);
        let block = node.own;
        disk.write(block.first_sector(), &bytes)
    }

    /// One reference more to a block that is held, or named by a node.
    ///
    /// `Damaged` exactly where its count is the greatest `u32`, which no count of references is.
    pub fn share(&mut self, block: Mb) -> Result<(), StoreError>
        requires inside { block < self.old.geometry.metadata_blocks }
        ensures more { OnOk result (self.new ≡ record self.old { metadata_now = set self.old.metadata_now block (slice_index self.old.metadata_now block + 1) }) }
        ensures holds { OnOk result ((disk : DiskState) (opens held : List ℕ) (s : Store) → Holds self.old disk opens (block ∷ held) s
            → Holds self.new disk opens (block ∷ block ∷ held) (with_count s block (count_of s block + 1))) }
        ensures named { OnOk result ((disk : DiskState) (opens held : List ℕ) (s : Store) → Holds self.old disk opens held s → 0 < count_of s block → occurrences block opens ≡ 0
            → Holds self.new disk opens (block ∷ held) (with_count s block (count_of s block + 1))) }
        ensures err { IfErr result (λ error. (error ≡ StoreError.Damaged) × (self.new ≡ self.old) × (slice_index self.old.metadata_now block + 1 ≡ 2 ^ 32)) }
    {
        if self.metadata_counts.now(block.number() as u64) == u32::MAX {
            return Err(StoreError::Damaged);
        }
        self.name(block);
        Ok(())
    }

    /// Trades a held reference to a node of this kind for an open block, into which the node may be written again, changed.
    /// The holder gets a reference to each block that the node names.
    ///
    /// The block is the node's own where nothing else names that and the last commit does not; else a fresh one, and
    /// what the node names is counted once more where the node stays. Nothing is written: the bytes of the node are put
    /// into `bytes` in each case, and the holder writes them, changed, to the block that is answered. After an `Err`,
    /// `bytes` may hold anything.
    ///
    /// It refuses with `Fault` where the read failed, and leaves all counts then; and with `Damaged` where the block
    /// spells no such node, or a count is not that of the references. It takes one free block at most, also then.
    pub fn shadow<D: Disk>(
        &mut self,
        disk: &mut D,
        block: Mb,
        kind: TreeKind,
        bytes: &mut BlockBytes,
    ) -> Result<Mb, StoreError>
        requires disk { sectors_of_image self.old.geometry ≤ (D.state disk.old).size }
        requires inside { block < self.old.geometry.metadata_blocks }
        requires room { 0 < free_metadata self.old }
        ensures inside { IfOk result (λ to. to < self.old.geometry.metadata_blocks) }
        ensures unkept { IfOk result (λ to. slice_index self.new.metadata_kept to ≡ 0) }
        ensures spelled { OnOk result ((n : NodeValue) × (IsNode n × (n.kind ≡ kind) × (n.own ≡ block) × (bytes.new ≡ node_bytes n))) }
        ensures found { OnOk result (IsTrue (D.state disk.old).is_honest → bytes.new ≡ block_at (seen (D.state disk.old).cells) block) }
        ensures shadowed { IfOk result (λ to. IsTrue (D.state disk.old).is_honest → (opens held : List ℕ) (s : Store)
            → Holds self.old (D.state disk.old) opens (block ∷ held) s → IsRankOf kind (node_at s block).rank → HasRoomFor 301 opens held
            → Shadowed s self.new (D.state disk.old) to block opens held) }
        ensures damaged { result ≡ Err StoreError.Damaged → IsTrue (D.state disk.old).is_honest → (opens held : List ℕ) (s : Store)
            → Holds self.old (D.state disk.old) opens (block ∷ held) s → IsRankOf kind (node_at s block).rank → HasRoomFor 301 opens held → ⊥ }
        ensures fault { result ≡ Err StoreError.Fault → self.new ≡ self.old }
        ensures kept { (self.new.geometry ≡ self.old.geometry) × (self.new.metadata_kept ≡ self.old.metadata_kept) × (self.new.data_kept ≡ self.old.data_kept) × (self.new.held_root ≡ self.old.held_root) }
        ensures in_place { slice_index self.old.metadata_now block ≡ 1 → slice_index self.old.metadata_kept block ≡ 0 → (self.new ≡ self.old) × IfOk result (λ to. to ≡ block) }
        ensures free { free_metadata self.old ≤ free_metadata self.new + 1 }
        ensures used { used_metadata self.new ≤ used_metadata self.old + 1 }
        ensures free_data { free_data self.old ≤ free_data self.new }
        ensures state { D.state disk.new ≡ after_read (not (is_fault result)) (D.state disk.old) }
    {
        self.read(disk, block, kind, bytes)?;
        if self.is_private(block) {
            return Ok(block);
        }
        let to = self.fresh();
        self.pass_on(block.number() as u64, bytes, kind)?;
        Ok(to)
    }

    /// Whether a block is named once, and not by the last commit.
    fn is_private(&self, block: Mb) -> bool
        requires inside { block < self.now.geometry.metadata_blocks }
        ensures private { IsTrue result ↔ (slice_index self.now.metadata_now block ≡ 1) × (slice_index self.now.metadata_kept block ≡ 0) }
        ensures long { length self.now.metadata_now ≡ self.now.geometry.metadata_blocks }
        ensures kept_long { length self.now.metadata_kept ≡ self.now.geometry.metadata_blocks }
    {
        let index = block.number() as u64;
        self.metadata_counts.now(index) == 1 && self.metadata_counts.kept(index) == 0
    }

    /// Gives up an open block that is not written: it is free at once, or after the next commit.
    ///
    /// `Damaged` exactly where its count is zero, which that of an open block is not.
    pub fn abandon(&mut self, block: Mb) -> Result<(), StoreError>
        requires inside { block < self.old.geometry.metadata_blocks }
        ensures recounted { OnOk result (IsRecounted self.old self.new block (slice_index (counts_now self.old) block - 1)) }
        ensures holds { OnOk result ((disk : DiskState) (opens held : List ℕ) (s : Store) → Holds self.old disk (block ∷ opens) held s
            → Holds self.new disk opens held (with_count s block 0)) }
        ensures damaged { result ≡ Err StoreError.Damaged → (disk : DiskState) (opens held : List ℕ) (s : Store) → Holds self.old disk (block ∷ opens) held s → ⊥ }
        ensures err { IfErr result (λ error. (error ≡ StoreError.Damaged) × (slice_index (counts_now self.old) block ≡ 0) × (self.new ≡ self.old)) }
        ensures fewer { OnlyFewer self.old self.new }
        ensures free { free_metadata self.old ≤ free_metadata self.new }
        ensures used { used_metadata self.new ≤ used_metadata self.old }
    {
        self.unname(block.number() as u64)?;
        Ok(())
    }
}
