//! A value that is replaced at a key of a tree.

ghost use Rattle.std.specs.Prelude.{◌≡◌, ◌+◌, ◌<◌, ◌≤◌, ◌⊎◌, ℕ, List, Err, IfErr, IfOk, IsTrue, None, Some, slice_index};
ghost use Rattle.tp_model.specs.Geometry.{sectors_of_image};
ghost use Rattle.tp_counts.specs.StoreErrors.{is_fault};
ghost use Rattle.tp_layout.specs.Node.{FitsEntry, IsNode, is_long, most_level};
ghost use Rattle.tp_layout.specs.Value.{node_value};
ghost use Rattle.tp_layout.specs.Entries.{found, with_entry};
ghost use Rattle.tp_layout.specs.declared.entry.Entry.{Entry};
ghost use Rattle.tp_refs.specs.Store.{Store};
ghost use Rattle.tp_tm.specs.Tm.{free_metadata};
ghost use Rattle.tp_btree.specs.Inserts.{Ran};
ghost use Rattle.tp_btree.specs.Replaces.{CanReplace, Swapped, as_reference};

use crate::growth::exchange_child;
use crate::opening::{open, way_to};
use crate::split::write;
use tp_counts::StoreError;
use tp_disk::Disk;
use tp_layout::{Entry, Node, TreeKind};
use tp_model::Mb;
use tp_nodes::find;
use tp_tm::Tm;

/// The root that a tree has after a change, and the entry that it had at the key before, as its leaf had it.
#[derive(Clone, Copy, Debug, PartialEq, Eq)]
pub struct Changed {
    pub root: Mb,
    pub was: Entry,
}

/// Puts an entry in the place of the one of a tree of this kind that has its key. The reference to the root is traded
/// for one to the root that the tree has then, and the reference to the new value for one to the value before.
///
/// It refuses with `Fault` where a read or a write failed, and with `Damaged` where the tree has no entry at the key, a
/// block of the path spells no node of the tree, or a count is not that of the references. A refused call may leave
/// blocks open. It takes one free block for each level at most.
pub fn replace<D: Disk>(
    tm: &mut Tm,
    disk: &mut D,
    kind: TreeKind,
    root: Mb,
    entry: Entry,
) -> Result<Changed, StoreError>
    requires disk { sectors_of_image tm.old.geometry ≤ (D.state disk.old).size }
    requires inside { root < tm.old.geometry.metadata_blocks }
    requires fits { FitsEntry (is_long kind 0) entry }
    requires room { most_level kind + 1 ≤ free_metadata tm.old }
    ensures inside { IfOk result (λ done. done.root < tm.old.geometry.metadata_blocks) }
    ensures replaced { IfOk result (λ done. IsTrue (D.state disk.old).is_honest → (opens held : List ℕ) (s : Store) (k high : ℕ) (was : Entry)
        → CanReplace tm.old (D.state disk.old) kind opens held s k 0 high root (as_reference tm.old.geometry.metadata_blocks kind entry) was
        → Swapped tm.old.geometry.metadata_blocks s tm.new (D.state disk.new) kind opens held k 0 high root (as_reference tm.old.geometry.metadata_blocks kind entry) was done) }
    ensures damaged { result ≡ Err StoreError.Damaged → IsTrue (D.state disk.old).is_honest → (opens held : List ℕ) (s : Store) (k high : ℕ) (was : Entry)
        → CanReplace tm.old (D.state disk.old) kind opens held s k 0 high root (as_reference tm.old.geometry.metadata_blocks kind entry) was → ⊥ }
    ensures ran { Ran (most_level kind + 1) (is_fault result) tm.old tm.new (D.state disk.old) (D.state disk.new) }
{
    replace_below(tm, disk, kind, root, kind.most_level(), entry)
}

/// Puts an entry in the place of the one of a leaf that has its key, and gives that one back. `Damaged` exactly where
/// there is none.
fn exchange(leaf: &mut Node, entry: Entry) -> Result<Entry, StoreError>
    requires good { IsNode (node_value leaf.old) }
    requires fits { FitsEntry (is_long leaf.old.kind leaf.old.level) entry }
    ensures before { IfOk result (λ was. found entry.key leaf.old.entries.items ≡ Some was) }
    ensures value { IfOk result (λ was. node_value leaf.new ≡ record (node_value leaf.old) { entries = with_entry entry leaf.old.entries.items }) }
    ensures good { IfOk result (λ was. IsNode (node_value leaf.new)) }
    ensures err { IfErr result (λ error. (error ≡ StoreError.Damaged) × (found entry.key leaf.old.entries.items ≡ None)) }
{
    match find(leaf, entry.key) {
        Some(_) => Ok(tp_nodes::replace(leaf, entry)),
        None => Err(StoreError::Damaged),
    }
}

/// Puts an entry in the place of the one that has its key, below a block of this level at most.
fn replace_below<D: Disk>(
    tm: &mut Tm,
    disk: &mut D,
    kind: TreeKind,
    block: Mb,
    top: u32,
    entry: Entry,
) -> Result<Changed, StoreError>
    requires disk { sectors_of_image tm.old.geometry ≤ (D.state disk.old).size }
    requires inside { block < tm.old.geometry.metadata_blocks }
    requires fits { FitsEntry (is_long kind 0) entry }
    requires room { top + 1 ≤ free_metadata tm.old }
    ensures inside { IfOk result (λ done. done.root < tm.old.geometry.metadata_blocks) }
    ensures replaced { IfOk result (λ done. IsTrue (D.state disk.old).is_honest → (opens held : List ℕ) (s : Store) (k low high : ℕ) (was : Entry)
        → CanReplace tm.old (D.state disk.old) kind opens held s k low high block (as_reference tm.old.geometry.metadata_blocks kind entry) was → k ≤ top
        → Swapped tm.old.geometry.metadata_blocks s tm.new (D.state disk.new) kind opens held k low high block (as_reference tm.old.geometry.metadata_blocks kind entry) was done) }
    ensures damaged { result ≡ Err StoreError.Damaged → IsTrue (D.state disk.old).is_honest → (opens held : List ℕ) (s : Store) (k low high : ℕ) (was : Entry)
        → CanReplace tm.old (D.state disk.old) kind opens held s k low high block (as_reference tm.old.geometry.metadata_blocks kind entry) was → k ≤ top → ⊥ }
    ensures ran { Ran (top + 1) (is_fault result) tm.old tm.new (D.state disk.old) (D.state disk.new) }
{
    let mut node = open(tm, disk, kind, block, top)?;
    if node.level == 0 {
        let was = exchange(&mut node, entry)?;
        write(tm, disk, &node)?;
        return Ok(Changed {
            root: node.own,
            was,
        });
    }
    let way = way_to(tm, &node, entry.key)?;
    let done = replace_below(tm, disk, kind, way.child, node.level - 1, entry)?;
    exchange_child(&mut node, way.index, done.root.number() as u64);
    write(tm, disk, &node)?;
    Ok(Changed {
        root: node.own,
        was: done.was,
    })
}
