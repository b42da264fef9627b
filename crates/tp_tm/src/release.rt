//! Trees that are given up.

ghost use Rattle.std.specs.Prelude.{◌≡◌, ◌+◌, ◌-◌, ◌<◌, ◌≤◌, ◌∷◌, ℕ, List, Err, IsTrue, OnOk, not};
ghost use Rattle.tp_model.specs.Geometry.{sectors_of_image};
ghost use Rattle.tp_counts.specs.StoreErrors.{is_fault};
ghost use Rattle.tp_model.specs.Disk.{after_read, seen};
ghost use Rattle.tp_layout.specs.Node.{IsNode, NodeValue, node_bytes};
ghost use Rattle.tp_image.specs.Nodes.{IsNodeAt, block_at};
ghost use Rattle.tp_refs.specs.Store.{Store, node_at, rank_of};
ghost use Rattle.tp_tm.specs.Tm.{OnlyFewer, free_data, free_metadata, used_metadata};
ghost use Rattle.tp_tm.specs.Holds.{Holds, IsRankOf, IsUnder, Released, kind_below};

use crate::{BLOCK, Tm};
use tp_counts::StoreError;
use tp_disk::{Disk, Fault};
use tp_layout::{BlockBytes, NodeView, TreeKind};
use tp_model::Mb;

impl Tm {
    /// Gives up a reference to a node of this kind that is held. A block that nothing names any more is given back, and so
    /// on below it: it is free after the next commit, or at once where the last one does not name it.
    ///
    /// It refuses with `Fault` where a read failed, and with `Damaged` where a block below spells no node of its
    /// place, or a count below is not that of the references. After an `Err` some counts may have fallen.
    pub fn release<D: Disk>(
        &mut self,
        disk: &mut D,
        block: Mb,
        kind: TreeKind,
    ) -> Result<(), StoreError>
        requires disk { sectors_of_image self.old.geometry ≤ (D.state disk.old).size }
        requires inside { block < self.old.geometry.metadata_blocks }
        ensures released { OnOk result (IsTrue (D.state disk.old).is_honest → (opens held : List ℕ) (s : Store)
            → Holds self.old (D.state disk.old) opens (block ∷ held) s → IsRankOf kind (node_at s block).rank
            → Released s self.new (D.state disk.old) opens held) }
        ensures damaged { result ≡ Err StoreError.Damaged → IsTrue (D.state disk.old).is_honest → (opens held : List ℕ) (s : Store)
            → Holds self.old (D.state disk.old) opens (block ∷ held) s → IsRankOf kind (node_at s block).rank → ⊥ }
        ensures fewer { OnlyFewer self.old self.new }
        ensures free { free_metadata self.old ≤ free_metadata self.new }
        ensures used { used_metadata self.new ≤ used_metadata self.old }
        ensures free_data { free_data self.old ≤ free_data self.new }
        ensures state { D.state disk.new ≡ after_read (not (is_fault result)) (D.state disk.old) }
    {
        self.release_to(disk, block.number() as u64, kind, 7)
    }

    /// Gives up a reference to a node of this kind and of this rank at most, or to a data block where that rank is 0.
    fn release_to<D: Disk>(
        &mut self,
        disk: &mut D,
        reference: u64,
        kind: TreeKind,
        top: u32,
    ) -> Result<(), StoreError>
        requires disk { sectors_of_image self.old.geometry ≤ (D.state disk.old).size }
        requires inside { reference < self.old.geometry.metadata_blocks + self.old.geometry.data_blocks }
        ensures released { OnOk result (IsTrue (D.state disk.old).is_honest → (opens held : List ℕ) (s : Store)
            → Holds self.old (D.state disk.old) opens (reference ∷ held) s → IsUnder kind top (node_at s reference).rank
            → Released s self.new (D.state disk.old) opens held) }
        ensures damaged { result ≡ Err StoreError.Damaged → IsTrue (D.state disk.old).is_honest → (opens held : List ℕ) (s : Store)
            → Holds self.old (D.state disk.old) opens (reference ∷ held) s → IsUnder kind top (node_at s reference).rank → ⊥ }
        ensures fewer { OnlyFewer self.old self.new }
        ensures state { D.state disk.new ≡ after_read (not (is_fault result)) (D.state disk.old) }
    {
        if self.unname(reference)? || top == 0 {
            return Ok(());
        }
        let mut bytes = [0; BLOCK];
        self.load(disk, reference, kind, top, &mut bytes)?;
        let node = NodeView::known(&bytes, kind);
        let rank = rank_of(kind, node.level());
        for i in 0..node.len() {
            let child = self.reference(kind, node.level(), node.entry(i).value)?;
            self.release_to(disk, child, kind_below(rank), rank - 1)?;
        }
        Ok(())
    }

    /// The node of this kind and of this rank at most that a reference names.
    fn load<D: Disk>(
        &self,
        disk: &mut D,
        reference: u64,
        kind: TreeKind,
        top: u32,
        bytes: &mut BlockBytes,
    ) -> Result<(), StoreError>
        requires disk { sectors_of_image self.now.geometry ≤ (D.state disk.old).size }
        ensures spelled { OnOk result ((n : NodeValue) × (IsNode n × (n.kind ≡ kind) × (n.own ≡ reference) × (bytes.new ≡ node_bytes n))) }
        ensures top { OnOk result ((n : NodeValue) → IsNode n → n.kind ≡ kind → bytes.new ≡ node_bytes n → rank_of kind n.level ≤ top) }
        ensures found { OnOk result (IsTrue (D.state disk.old).is_honest → bytes.new ≡ block_at (seen (D.state disk.old).cells) reference) }
        ensures damaged { result ≡ Err StoreError.Damaged → IsTrue (D.state disk.old).is_honest → (n : NodeValue) → reference < self.now.geometry.metadata_blocks
            → IsNodeAt (seen (D.state disk.old).cells) reference n → n.kind ≡ kind → rank_of kind n.level ≤ top → ⊥ }
        ensures state { D.state disk.new ≡ after_read (not (is_fault result)) (D.state disk.old) }
    {
        if reference >= self.geometry.metadata_blocks() as u64 {
            return Err(StoreError::Damaged);
        }
        self.read(disk, Mb::new(reference as u32), kind, bytes)?;
        let node = NodeView::known(bytes, kind);
        if rank_of(kind, node.level()) > top {
            return Err(StoreError::Damaged);
        }
        Ok(())
    }
}

/// The rank of a node: 1 for a leaf of a mapping tree, 5 for one of the device tree.
fn rank_of(kind: TreeKind, level: u32) -> u32
    requires { level ≤ 3 }
    ensures { result ≡ rank_of kind level }
{
    match kind {
        TreeKind::Mapping => level + 1,
        TreeKind::Device => level + 5,
    }
}

/// The kind of the nodes that a node of this rank names.
fn kind_below(rank: u32) -> TreeKind
    ensures { result ≡ kind_below rank }
{
    if rank > 5 {
        TreeKind::Device
    } else {
        TreeKind::Mapping
    }
}
