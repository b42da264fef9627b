//! One step down a tree.

ghost use Rattle.std.specs.Prelude.{◌≡◌, ◌<◌, ◌≤◌, ◌+◌, ◌⊎◌, ℕ, List, Err, IfErr, IfOk, IsTrue, not};
ghost use Rattle.tp_model.specs.Geometry.{sectors_of_image};
ghost use Rattle.tp_counts.specs.StoreErrors.{is_fault};
ghost use Rattle.tp_model.specs.Disk.{after_read};
ghost use Rattle.tp_layout.specs.Node.{IsNode, NodeValue, SpellsNode, node_bytes};
ghost use Rattle.tp_refs.specs.Store.{Store, count_of, node_at};
ghost use Rattle.tp_refs.specs.Balance.{occurrences};
ghost use Rattle.tp_tm.specs.Holds.{Holds, IsRankOf};
ghost use Rattle.tp_btree.specs.Trees.{IsStep, base_of, last_up_to};

use tp_counts::StoreError;
use tp_disk::Disk;
use tp_layout::{BlockBytes, Entry, NodeView, TreeKind};
use tp_model::Mb;
use tp_tm::{BLOCK, Tm};

/// What a node says of a key: its level, and its last entry with a key up to that.
#[derive(Clone, Copy)]
pub(crate) struct NodeStep {
    pub(crate) level: u32,
    pub(crate) entry: Option<Entry>,
}

/// The last entry of a node with a key up to this one, if there is one.
pub(crate) fn last_of(node: &NodeView<'_>, key: u64) -> Option<Entry>
    ensures { result ≡ last_up_to key node.now.entries }
{
    let rank = node.rank(key);
    if rank == 0 {
        return None;
    }
    Some(node.entry(rank - 1))
}

/// What the node in these bytes says of a key.
pub(crate) fn step_in(bytes: &BlockBytes, kind: TreeKind, key: u64) -> NodeStep
    requires { SpellsNode kind bytes.now }
    ensures { (n : NodeValue) → IsNode n → n.kind ≡ kind → bytes.now ≡ node_bytes n → (result.level ≡ n.level) × (result.entry ≡ last_up_to key n.entries) }
{
    let node = NodeView::known(bytes, kind);
    NodeStep {
        level: node.level(),
        entry: last_of(&node, key),
    }
}

/// What the node of this kind and at most this level in a block says of a key.
///
/// It refuses with `Fault` where the read failed, and with `Damaged` where the block spells no such node.
pub(crate) fn step_at<D: Disk>(
    tm: &Tm,
    disk: &mut D,
    kind: TreeKind,
    block: Mb,
    top: u32,
    key: u64,
) -> Result<NodeStep, StoreError>
    requires disk { sectors_of_image tm.now.geometry ≤ (D.state disk.old).size }
    requires inside { block < tm.now.geometry.metadata_blocks }
    ensures step { IfOk result (λ step. IsTrue (D.state disk.old).is_honest → (opens held : List ℕ) (s : Store) → Holds tm.now (D.state disk.old) opens held s
        → 0 < count_of s block → occurrences block opens ≡ 0 → IsRankOf kind (node_at s block).rank → IsStep tm.now.geometry.metadata_blocks kind s key block step) }
    ensures top { IfOk result (λ step. step.level ≤ top) }
    ensures damaged { result ≡ Err StoreError.Damaged → IsTrue (D.state disk.old).is_honest → (opens held : List ℕ) (s : Store) → Holds tm.now (D.state disk.old) opens held s
        → 0 < count_of s block → occurrences block opens ≡ 0 → IsRankOf kind (node_at s block).rank → (node_at s block).rank ≤ base_of kind + top → ⊥ }
    ensures state { D.state disk.new ≡ after_read (not (is_fault result)) (D.state disk.old) }
{
    let mut bytes = [0; BLOCK];
    tm.read(disk, block, kind, &mut bytes)?;
    let step = step_in(&bytes, kind, key);
    if step.level > top {
        return Err(StoreError::Damaged);
    }
    Ok(step)
}
