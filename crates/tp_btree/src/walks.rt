//! The entries of a tree in the order of their keys.

ghost use Rattle.std.specs.Prelude.{◌≡◌, ◌<◌, ◌≤◌, ◌++◌, ◌∷◌, ℕ, List, [], IsTrue, length, take};
ghost use Rattle.tp_model.specs.Geometry.{sectors_of_image};
ghost use Rattle.tp_counts.specs.LookUps.{IsLookedUp};
ghost use Rattle.tp_refs.specs.Store.{Store};
ghost use Rattle.tp_trees.specs.Tree.{pairs};
ghost use Rattle.tp_btree.specs.Trees.{StandsBelow};
ghost use Rattle.tp_btree.specs.Walks.{IsFilled, IsLonger, from_key};

use crate::look_up::block_of;
use arrayvec::ArrayVec;
use tp_counts::StoreError;
use tp_disk::Disk;
use tp_layout::{Entry, MOST_ENTRIES, NodeView, TreeKind};
use tp_model::Mb;
use tp_tm::{BLOCK, Tm};

type Entries = ArrayVec<Entry, MOST_ENTRIES>;

/// Adds the entries of a tree of this kind with keys from `from` on, in the order of their keys and as the leaves have them,
/// until `entries` is full. A tree of any size is walked in pieces: the next begins behind the last key.
///
/// It refuses with `Fault` where a read failed, and with `Damaged` where a block spells no node of the tree, or an entry of
/// an inner node names no block of this pool. Some entries may have been added then.
pub fn walk<D: Disk>(
    tm: &Tm,
    disk: &mut D,
    kind: TreeKind,
    root: Mb,
    from: u64,
    entries: &mut Entries,
) -> Result<(), StoreError>
    requires disk { sectors_of_image tm.now.geometry ≤ (D.state disk.old).size }
    requires inside { root < tm.now.geometry.metadata_blocks }
    ensures looked { IsLookedUp (λ P. IsTrue (D.state disk.old).is_honest → (opens held : List ℕ) (s : Store) (k high : ℕ)
        → StandsBelow tm.now (D.state disk.old) kind opens held s k 0 high root → P k s) (D.state disk.old) (D.state disk.new) result
        (λ done k s. IsFilled tm.now.geometry.metadata_blocks kind (from_key from (pairs k s root)) entries.old.items entries.new.items) }
    ensures longer { IsLonger entries.old.items entries.new.items }
{
    walk_below(tm, disk, kind, root, kind.most_level(), from, entries)
}

/// Adds an entry, where its key is `from` or a greater one and there is room.
fn add(entries: &mut Entries, entry: Entry, from: u64)
    ensures value { entries.new.items ≡ take 252 (entries.old.items ++ from_key from (entry ∷ [])) }
    ensures longer { IsLonger entries.old.items entries.new.items }
{
    let len = entries.len();
    if entry.key < from {
        return;
    }
    if len < MOST_ENTRIES {
        entries.push(entry);
    }
}

/// Adds the entries of a node with keys from `from` on, until there is no room.
fn add_leaf(entries: &mut Entries, node: &NodeView<'_>, from: u64)
    requires { length entries.old.items ≤ 252 }
    ensures value { entries.new.items ≡ take 252 (entries.old.items ++ from_key from node.now.entries) }
    ensures longer { IsLonger entries.old.items entries.new.items }
{
    for i in 0..node.len() {
        add(entries, node.entry(i), from);
    }
}

/// Adds the entries below a block with keys from `from` on. The block has this level at most.
fn walk_below<D: Disk>(
    tm: &Tm,
    disk: &mut D,
    kind: TreeKind,
    block: Mb,
    top: u32,
    from: u64,
    entries: &mut Entries,
) -> Result<(), StoreError>
    requires disk { sectors_of_image tm.now.geometry ≤ (D.state disk.old).size }
    requires inside { block < tm.now.geometry.metadata_blocks }
    ensures looked { IsLookedUp (λ P. IsTrue (D.state disk.old).is_honest → (opens held : List ℕ) (s : Store) (k low high : ℕ)
        → StandsBelow tm.now (D.state disk.old) kind opens held s k low high block → k ≤ top → P k s) (D.state disk.old) (D.state disk.new) result
        (λ done k s. IsFilled tm.now.geometry.metadata_blocks kind (from_key from (pairs k s block)) entries.old.items entries.new.items) }
    ensures longer { IsLonger entries.old.items entries.new.items }
{
    if entries.len() == MOST_ENTRIES {
        return Ok(());
    }
    let mut bytes = [0; BLOCK];
    tm.read(disk, block, kind, &mut bytes)?;
    let node = NodeView::known(&bytes, kind);
    let level = node.level();
    if level > top {
        return Err(StoreError::Damaged);
    }
    if level == 0 {
        add_leaf(entries, &node, from);
        return Ok(());
    }
    for i in node.rank(from).saturating_sub(1)..node.len() {
        let child = block_of(tm, node.entry(i).value)?;
        walk_below(tm, disk, kind, child, level - 1, from, entries)?;
    }
    Ok(())
}
