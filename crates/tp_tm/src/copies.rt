//! What a node that is copied names.

ghost use Rattle.std.specs.Prelude.{◌≡◌, ◌≢◌, ◌+◌, ◌-◌, ◌<◌, ◌≤◌, ◌++◌, ◌∷◌, ℕ, List, Err, IfErr, OnOk, slice_index};
ghost use Rattle.tp_model.specs.Disk.{DiskState};
ghost use Rattle.tp_layout.specs.Node.{IsNode, NodeValue, SpellsNode, node_bytes};
ghost use Rattle.tp_refs.specs.Store.{Store, children, node_at, node_from};
ghost use Rattle.tp_refs.specs.Balance.{HasRoomFor};
ghost use Rattle.tp_tm.specs.Tm.{IsRaised, NoneTaken, counts_now};
ghost use Rattle.tp_tm.specs.Holds.{Holds, Released};

use crate::Tm;
use tp_counts::StoreError;
use tp_layout::{BlockBytes, NodeView, TreeKind};

impl Tm {
    /// Gives up a reference to the node in these bytes: each block that it names has one name more where it stays.
    pub(crate) fn pass_on(
        &mut self,
        reference: u64,
        bytes: &BlockBytes,
        kind: TreeKind,
    ) -> Result<(), StoreError>
        requires inside { reference < self.old.geometry.metadata_blocks + self.old.geometry.data_blocks }
        requires node { SpellsNode kind bytes.now }
        ensures passed { OnOk result ((disk : DiskState) (opens held : List ℕ) (s : Store) (n : NodeValue) → IsNode n → n.kind ≡ kind → bytes.now ≡ node_bytes n
            → Holds self.old disk opens (reference ∷ held) s → node_at s reference ≡ node_from self.old.geometry.metadata_blocks n
            → Released s self.new disk opens (children (node_at s reference) ++ held)) }
        ensures damaged { result ≡ Err StoreError.Damaged → (disk : DiskState) (opens held : List ℕ) (s : Store) (n : NodeValue) → IsNode n → n.kind ≡ kind → bytes.now ≡ node_bytes n
            → Holds self.old disk opens (reference ∷ held) s → node_at s reference ≡ node_from self.old.geometry.metadata_blocks n → HasRoomFor 300 opens held → ⊥ }
        ensures only { IfErr result (λ error. error ≡ StoreError.Damaged) }
        ensures untaken { NoneTaken self.old self.new }
        ensures others { (b : ℕ) → b ≢ reference → slice_index (counts_now self.old) b ≤ slice_index (counts_now self.new) b }
    {
        if self.count(reference) > 1 {
            self.share_children(bytes, kind)?;
            self.unname(reference)?;
            return Ok(());
        }
        self.unname(reference)?;
        Ok(())
    }

    /// One name more of each block that the node in these bytes names.
    fn share_children(&mut self, bytes: &BlockBytes, kind: TreeKind) -> Result<(), StoreError>
        requires node { SpellsNode kind bytes.now }
        ensures shared { OnOk result ((disk : DiskState) (opens held : List ℕ) (s : Store) (b : ℕ) (n : NodeValue) → IsNode n → n.kind ≡ kind → bytes.now ≡ node_bytes n
            → Holds self.old disk opens (b ∷ held) s → node_at s b ≡ node_from self.old.geometry.metadata_blocks n
            → Released s self.new disk opens (children (node_at s b) ++ b ∷ held)) }
        ensures damaged { result ≡ Err StoreError.Damaged → (disk : DiskState) (opens held : List ℕ) (s : Store) (b : ℕ) (n : NodeValue) → IsNode n → n.kind ≡ kind → bytes.now ≡ node_bytes n
            → Holds self.old disk opens (b ∷ held) s → node_at s b ≡ node_from self.old.geometry.metadata_blocks n → HasRoomFor 300 opens held → ⊥ }
        ensures only { IfErr result (λ error. error ≡ StoreError.Damaged) }
        ensures raised { IsRaised self.old self.new }
    {
        let node = NodeView::known(bytes, kind);
        for i in 0..node.len() {
            let child = self.reference(kind, node.level(), node.entry(i).value)?;
            self.raise(child)?;
        }
        Ok(())
    }
}
