//! An entry that is taken out of a tree.

ghost use Rattle.std.specs.Prelude.{◌≡◌, ◌+◌, ◌*◌, ◌<◌, ◌≤◌, ◌⊎◌, ◌↔◌, ℕ, List, Err, IfErr, IfOk, IsTrue, None, Some, length, slice_index};
ghost use Rattle.tp_model.specs.Geometry.{sectors_of_image};
ghost use Rattle.tp_counts.specs.StoreErrors.{is_fault};
ghost use Rattle.tp_layout.specs.Node.{IsNode, most_level};
ghost use Rattle.tp_layout.specs.Value.{node_value};
ghost use Rattle.tp_layout.specs.Entries.{found, without_key};
ghost use Rattle.tp_layout.specs.declared.entry.Entry.{Entry};
ghost use Rattle.tp_layout.specs.declared.kind.TreeKind.{TreeKind};
ghost use Rattle.tp_refs.specs.Store.{Store, node_at};
ghost use Rattle.tp_tm.specs.Tm.{free_metadata};
ghost use Rattle.tp_btree.specs.Inserts.{Ran};
ghost use Rattle.tp_btree.specs.Removes.{CanRemove, Cutout, Settled, WasRemoved};

use crate::look_up::block_of;
use crate::opening::{open, way_to};
use crate::refit::refit;
use crate::replacement::Changed;
use crate::split::write;
use tp_counts::StoreError;
use tp_disk::Disk;
use tp_layout::{Entry, Node, TreeKind};
use tp_model::Mb;
use tp_nodes::{find, take};
use tp_tm::Tm;

/// A node that lost an entry below it, for its open block, and the entry.
#[derive(Drop)]
struct Cut {
    node: Node,
    was: Entry,
}

/// Takes the entry with this key out of a tree of this kind. The reference to the root is traded for one to the root that
/// the tree has then, and the reference to the entry's value is handed out. Nodes that get too few entries are joined with
/// the ones beside them, or refilled from there, and a root with one child gives way to it.
///
/// It refuses with `Fault` where a read or a write failed, and with `Damaged` where the tree has no entry at the key, a
/// block that is read spells no node of the tree, or a count is not that of the references. A refused call may leave
/// blocks open. It takes two free blocks for each level at most, and one for the leaf.
pub fn remove<D: Disk>(
    tm: &mut Tm,
    disk: &mut D,
    kind: TreeKind,
    root: Mb,
    key: u64,
) -> Result<Changed, StoreError>
    requires disk { sectors_of_image tm.old.geometry ≤ (D.state disk.old).size }
    requires inside { root < tm.old.geometry.metadata_blocks }
    requires room { 2 * most_level kind + 1 ≤ free_metadata tm.old }
    ensures inside { IfOk result (λ done. done.root < tm.old.geometry.metadata_blocks) }
    ensures removed { IfOk result (λ done. IsTrue (D.state disk.old).is_honest → (opens held : List ℕ) (s : Store) (k high : ℕ) (was : Entry)
        → CanRemove tm.old (D.state disk.old) kind opens held s k 0 high root key was
        → WasRemoved tm.old.geometry.metadata_blocks s tm.new (D.state disk.new) kind opens held k high root key was done) }
    ensures damaged { result ≡ Err StoreError.Damaged → IsTrue (D.state disk.old).is_honest → (opens held : List ℕ) (s : Store) (k high : ℕ) (was : Entry)
        → CanRemove tm.old (D.state disk.old) kind opens held s k 0 high root key was → ⊥ }
    ensures ran { Ran (2 * most_level kind + 1) (is_fault result) tm.old tm.new (D.state disk.old) (D.state disk.new) }
{
    let Cut { node, was } = take_below(tm, disk, kind, root, kind.most_level(), key)?;
    let root = settle(tm, disk, &node)?;
    Ok(Changed { root, was })
}

/// Takes out the entry of a leaf that has the key. `Damaged` exactly where there is none.
fn take_out(leaf: &mut Node, key: u64) -> Result<Entry, StoreError>
    requires good { IsNode (node_value leaf.old) }
    ensures taken { IfOk result (λ was. found key leaf.old.entries.items ≡ Some was) }
    ensures value { IfOk result (λ was. node_value leaf.new ≡ record (node_value leaf.old) { entries = without_key key leaf.old.entries.items }) }
    ensures good { IfOk result (λ was. IsNode (node_value leaf.new)) }
    ensures err { IfErr result (λ error. (error ≡ StoreError.Damaged) × (found key leaf.old.entries.items ≡ None)) }
{
    match find(leaf, key) {
        Some(_) => Ok(take(leaf, key)),
        None => Err(StoreError::Damaged),
    }
}

/// Takes an entry out below a block of this level at most. The node that is to stand in the block's place is not
/// written: it may have one entry too few.
fn take_below<D: Disk>(
    tm: &mut Tm,
    disk: &mut D,
    kind: TreeKind,
    block: Mb,
    top: u32,
    key: u64,
) -> Result<Cut, StoreError>
    requires disk { sectors_of_image tm.old.geometry ≤ (D.state disk.old).size }
    requires inside { block < tm.old.geometry.metadata_blocks }
    requires room { 2 * top + 1 ≤ free_metadata tm.old }
    ensures inside { IfOk result (λ cut. cut.node.own < tm.old.geometry.metadata_blocks) }
    ensures unkept { IfOk result (λ cut. slice_index tm.new.metadata_kept cut.node.own ≡ 0) }
    ensures good { IfOk result (λ cut. IsNode (node_value cut.node)) }
    ensures kind { IfOk result (λ cut. cut.node.kind ≡ kind) }
    ensures taken { IfOk result (λ cut. IsTrue (D.state disk.old).is_honest → (opens held : List ℕ) (s : Store) (k low high : ℕ) (was : Entry)
        → CanRemove tm.old (D.state disk.old) kind opens held s k low high block key was → k ≤ top
        → Cutout tm.old.geometry.metadata_blocks s tm.new (D.state disk.new) kind opens held k low high block key was (node_value cut.node) cut.was) }
    ensures damaged { result ≡ Err StoreError.Damaged → IsTrue (D.state disk.old).is_honest → (opens held : List ℕ) (s : Store) (k low high : ℕ) (was : Entry)
        → CanRemove tm.old (D.state disk.old) kind opens held s k low high block key was → k ≤ top → ⊥ }
    ensures ran { Ran (2 * top + 1) (is_fault result) tm.old tm.new (D.state disk.old) (D.state disk.new) }
{
    let mut node = open(tm, disk, kind, block, top)?;
    if node.level == 0 {
        let was = take_out(&mut node, key)?;
        return Ok(Cut { node, was });
    }
    let way = way_to(tm, &node, key)?;
    let Cut { node: part, was } = take_below(tm, disk, kind, way.child, node.level - 1, key)?;
    refit(tm, disk, &mut node, way.index, part)?;
    Ok(Cut { node, was })
}

/// Whether an inner node has one entry alone.
fn is_single(node: &Node) -> bool
    ensures { IsTrue result ↔ (0 < node.now.level) × (length node.now.entries.items ≡ 1) }
{
    node.level > 0 && node.entries.len() == 1
}

/// Writes the node that is to be a tree's root to its open block, or gives the block up where the node has one child
/// alone. It tells the root.
fn settle<D: Disk>(tm: &mut Tm, disk: &mut D, node: &Node) -> Result<Mb, StoreError>
    requires disk { sectors_of_image tm.old.geometry ≤ (D.state disk.old).size }
    requires inside { node.now.own < tm.old.geometry.metadata_blocks }
    requires unkept { slice_index tm.old.metadata_kept node.now.own ≡ 0 }
    requires node { IsNode (node_value node.now) }
    ensures inside { IfOk result (λ root. root < tm.old.geometry.metadata_blocks) }
    ensures settled { IfOk result (λ to. (opens held : List ℕ) (s : Store) (k high root key : ℕ) (was told : Entry)
        → Cutout tm.old.geometry.metadata_blocks s tm.old (D.state disk.old) node.now.kind opens held k 0 high root key was (node_value node.now) told → (0 < k → 2 ≤ length (node_at s root).entries)
        → Settled s tm.new (D.state disk.new) node.now.kind opens held k high root key was to) }
    ensures damaged { result ≡ Err StoreError.Damaged → (opens held : List ℕ) (s : Store) (k high root key : ℕ) (was told : Entry)
        → Cutout tm.old.geometry.metadata_blocks s tm.old (D.state disk.old) node.now.kind opens held k 0 high root key was (node_value node.now) told → ⊥ }
    ensures ran { Ran 0 (is_fault result) tm.old tm.new (D.state disk.old) (D.state disk.new) }
{
    if is_single(node) {
        let child = block_of(tm, node.entries[0].value)?;
        tm.abandon(node.own)?;
        return Ok(child);
    }
    write(tm, disk, node)?;
    Ok(node.own)
}
