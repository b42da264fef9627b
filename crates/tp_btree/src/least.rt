//! The entry of a tree that has the least key from some key on.

ghost use Rattle.std.specs.Prelude.{◌≡◌, ◌<◌, ◌≤◌, ℕ, List, IsTrue, length, slice_index};
ghost use Rattle.std.specs.Option.{option_map};
ghost use Rattle.tp_model.specs.Geometry.{sectors_of_image};
ghost use Rattle.tp_counts.specs.LookUps.{IsLookedUp};
ghost use Rattle.tp_layout.specs.Node.{keys};
ghost use Rattle.tp_refs.specs.Store.{Store, first_named, moved_by};
ghost use Rattle.tp_trees.specs.Tree.{pairs};
ghost use Rattle.tp_btree.specs.Trees.{StandsBelow};
ghost use Rattle.tp_btree.specs.Walks.{from_key};
ghost use Rattle.tp_btree.specs.Least.{first_entry};

use crate::look_up::block_of;
use tp_counts::StoreError;
use tp_disk::Disk;
use tp_layout::{Entry, NodeView, TreeKind};
use tp_model::Mb;
use tp_tm::{BLOCK, Tm};

/// The entry of a tree of this kind that has the least key of those from `from` on, as its leaf has it, if there is one. One node
/// of each level is read, and another one of a level only where the first has no such key.
///
/// It refuses with `Fault` where a read failed, and with `Damaged` where a block that it reads spells no node of the tree,
/// or an entry of an inner node names no block of this pool.
pub fn least_from<D: Disk>(
    tm: &Tm,
    disk: &mut D,
    kind: TreeKind,
    root: Mb,
    from: u64,
) -> Result<Option<Entry>, StoreError>
    requires disk { sectors_of_image tm.now.geometry ≤ (D.state disk.old).size }
    requires inside { root < tm.now.geometry.metadata_blocks }
    ensures { IsLookedUp (λ P. IsTrue (D.state disk.old).is_honest → (opens held : List ℕ) (s : Store) (k high : ℕ)
        → StandsBelow tm.now (D.state disk.old) kind opens held s k 0 high root → P k s) (D.state disk.old) (D.state disk.new) result
        (λ answer k s. option_map (moved_by (first_named tm.now.geometry.metadata_blocks kind 0)) answer ≡ first_entry (from_key from (pairs k s root))) }
{
    least_below(tm, disk, kind, root, kind.most_level(), from)
}

/// How many entries of a node have a key under `from`.
fn rank_under(node: &NodeView<'_>, from: u64) -> usize
    ensures within { result ≤ length node.now.entries }
    ensures under { (i : ℕ) → i < result → slice_index (keys node.now.entries) i < from }
    ensures others { (i : ℕ) → result ≤ i → i < length node.now.entries → from ≤ slice_index (keys node.now.entries) i }
{
    if from == 0 {
        return 0;
    }
    node.rank(from - 1)
}

/// The first entry of a node with a key from `from` on, if there is one.
fn least_in(node: &NodeView<'_>, from: u64) -> Option<Entry>
    ensures { result ≡ first_entry (from_key from node.now.entries) }
{
    let rank = rank_under(node, from);
    if rank == node.len() {
        return None;
    }
    Some(node.entry(rank))
}

/// The first entry below a block with a key from `from` on. The block has this level at most.
fn least_below<D: Disk>(
    tm: &Tm,
    disk: &mut D,
    kind: TreeKind,
    block: Mb,
    top: u32,
    from: u64,
) -> Result<Option<Entry>, StoreError>
    requires disk { sectors_of_image tm.now.geometry ≤ (D.state disk.old).size }
    requires inside { block < tm.now.geometry.metadata_blocks }
    ensures { IsLookedUp (λ P. IsTrue (D.state disk.old).is_honest → (opens held : List ℕ) (s : Store) (k low high : ℕ)
        → StandsBelow tm.now (D.state disk.old) kind opens held s k low high block → k ≤ top → P k s) (D.state disk.old) (D.state disk.new) result
        (λ answer k s. option_map (moved_by (first_named tm.now.geometry.metadata_blocks kind 0)) answer ≡ first_entry (from_key from (pairs k s block))) }
{
    let mut bytes = [0; BLOCK];
    tm.read(disk, block, kind, &mut bytes)?;
    let node = NodeView::known(&bytes, kind);
    let level = node.level();
    if level > top {
        return Err(StoreError::Damaged);
    }
    if level == 0 {
        return Ok(least_in(&node, from));
    }
    for i in node.rank(from).saturating_sub(1)..node.len() {
        let child = block_of(tm, node.entry(i).value)?;
        let found = least_below(tm, disk, kind, child, level - 1, from)?;
        if found.is_some() {
            return Ok(found);
        }
    }
    Ok(None)
}
