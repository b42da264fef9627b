//! A node that is opened for a change, and the way on from it.

ghost use Rattle.std.specs.Prelude.{◌≡◌, ◌+◌, ◌<◌, ◌≤◌, ◌∷◌, ◌⊎◌, ℕ, List, Err, IfErr, IfOk, IsTrue, length, slice_index, slice_index_or, slice_set};
ghost use Rattle.tp_model.specs.Geometry.{sectors_of_image};
ghost use Rattle.tp_counts.specs.StoreErrors.{is_fault};
ghost use Rattle.tp_layout.specs.Node.{IsNode, NodeValue, SpellsNode, node_bytes};
ghost use Rattle.tp_layout.specs.Value.{node_value};
ghost use Rattle.tp_layout.specs.Entries.{rank_of};
ghost use Rattle.tp_refs.specs.Store.{Store, node_at};
ghost use Rattle.tp_refs.specs.Balance.{HasRoomFor};
ghost use Rattle.tp_trees.specs.Tree.{blank};
ghost use Rattle.tp_trees.specs.Growth.{branch};
ghost use Rattle.tp_tm.specs.Tm.{free_metadata};
ghost use Rattle.tp_tm.specs.Holds.{Holds, IsRankOf};
ghost use Rattle.tp_btree.specs.Trees.{base_of};
ghost use Rattle.tp_btree.specs.Inserts.{Ran};
ghost use Rattle.tp_btree.specs.Replaces.{IsWay, NoWay, Opened};

use crate::growth::node_in;
use crate::look_up::block_of;
use tp_counts::StoreError;
use tp_disk::Disk;
use tp_layout::{Node, TreeKind};
use tp_model::Mb;
use tp_nodes::rank;
use tp_tm::{BLOCK, Tm};

/// The index of an inner node's entry whose interval holds a key, and the block that it names.
#[derive(Clone, Copy)]
pub(crate) struct Way {
    pub(crate) index: usize,
    pub(crate) child: Mb,
}

/// Trades a held reference to a node of this kind, and of this level at most, for its open block. The node is given with
/// that block's number, to be written there.
///
/// It refuses with `Fault` where the read failed, and with `Damaged` where the block spells no such node, or a count is
/// not that of the references.
pub(crate) fn open<D: Disk>(
    tm: &mut Tm,
    disk: &mut D,
    kind: TreeKind,
    block: Mb,
    top: u32,
) -> Result<Node, StoreError>
    requires disk { sectors_of_image tm.old.geometry ≤ (D.state disk.old).size }
    requires inside { block < tm.old.geometry.metadata_blocks }
    requires room { 0 < free_metadata tm.old }
    ensures inside { IfOk result (λ node. node.own < tm.old.geometry.metadata_blocks) }
    ensures unkept { IfOk result (λ node. slice_index tm.new.metadata_kept node.own ≡ 0) }
    ensures good { IfOk result (λ node. IsNode (node_value node)) }
    ensures kind { IfOk result (λ node. node.kind ≡ kind) }
    ensures top { IfOk result (λ node. node.level ≤ top) }
    ensures opened { IfOk result (λ node. IsTrue (D.state disk.old).is_honest → (opens held : List ℕ) (s : Store) → Holds tm.old (D.state disk.old) opens (block ∷ held) s
        → IsRankOf kind (node_at s block).rank → HasRoomFor 301 opens held → Opened tm.old.geometry.metadata_blocks s tm.new (D.state disk.new) block (node_value node) opens held) }
    ensures damaged { result ≡ Err StoreError.Damaged → IsTrue (D.state disk.old).is_honest → (opens held : List ℕ) (s : Store) → Holds tm.old (D.state disk.old) opens (block ∷ held) s
        → IsRankOf kind (node_at s block).rank → HasRoomFor 301 opens held → (node_at s block).rank ≤ base_of kind + top → ⊥ }
    ensures ran { Ran 1 (is_fault result) tm.old tm.new (D.state disk.old) (D.state disk.new) }
{
    let mut bytes = [0; BLOCK];
    let own = tm.shadow(disk, block, kind, &mut bytes)?;
    let node = node_in(&bytes, kind, own);
    if node.level > top {
        return Err(StoreError::Damaged);
    }
    Ok(node)
}

/// The way on from an inner node to a key, or `Damaged` where no entry's interval holds the key, or that entry names no
/// block of this pool.
pub(crate) fn way_to(tm: &Tm, node: &Node, key: u64) -> Result<Way, StoreError>
    requires good { IsNode (node_value node.now) }
    ensures way { IfOk result (λ way. IsWay tm.now.geometry.metadata_blocks node.now.entries.items key way) }
    ensures err { IfErr result (λ error. (error ≡ StoreError.Damaged) × NoWay tm.now.geometry.metadata_blocks node.now.entries.items key) }
{
    let rank = rank(node, key);
    if rank == 0 {
        return Err(StoreError::Damaged);
    }
    let child = block_of(tm, node.entries[rank - 1].value)?;
    Ok(Way {
        index: rank - 1,
        child,
    })
}
