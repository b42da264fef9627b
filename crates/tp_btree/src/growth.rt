//! An entry that is added to a tree.

ghost use Rattle.std.specs.Prelude.{◌≡◌, ◌+◌, ◌*◌, ◌<◌, ◌≤◌, ◌⊎◌, ℕ, List, Err, IfErr, IfOk, IsTrue, None, length, slice_index, slice_index_or, slice_set};
ghost use Rattle.tp_model.specs.Geometry.{sectors_of_image};
ghost use Rattle.tp_counts.specs.StoreErrors.{is_fault};
ghost use Rattle.tp_layout.specs.Node.{FitsEntry, IsNode, NodeValue, SpellsNode, is_long, node_bytes};
ghost use Rattle.tp_layout.specs.Value.{node_value};
ghost use Rattle.tp_layout.specs.Entries.{found};
ghost use Rattle.tp_refs.specs.Store.{Store, first_named, moved_by};
ghost use Rattle.tp_trees.specs.Tree.{blank};
ghost use Rattle.tp_trees.specs.Growth.{branch};
ghost use Rattle.tp_tm.specs.Tm.{free_metadata};
ghost use Rattle.tp_btree.specs.Inserts.{AreInside, CanPlace, Grew, IsBetween, Ran, Wanted, grown, with_new, with_traded};

use crate::look_up::block_of;
use crate::split::{Parts, write, write_with};
use tp_counts::StoreError;
use tp_disk::Disk;
use tp_layout::{BlockBytes, Entry, Node, NodeView, TreeKind};
use tp_model::Mb;
use tp_nodes::{find, rank, replace_at};
use tp_tm::{BLOCK, Tm};

/// Names another block as the child at an index.
pub(crate) fn exchange_child(node: &mut Node, i: usize, child: u64)
    requires good { IsNode (node_value node.old) }
    requires inner { 0 < node.old.level }
    requires within { i < length node.old.entries.items }
    ensures value { node_value node.new ≡ record (node_value node.old) { entries = slice_set node.old.entries.items i (branch (slice_index_or node.old.entries.items i blank).key child) } }
    ensures good { IsNode (node_value node.new) }
{
    let entry = Entry {
        key: node.entries[i].key,
        value: child,
        mapped: 0,
        size: 0,
    };
    replace_at(node, i, entry);
}

/// Names what stands in place of the child at an index, and writes the node to its open block, or to that and a fresh
/// one. `Damaged` where the node has the second part's key already.
fn graft<D: Disk>(
    tm: &mut Tm,
    disk: &mut D,
    mut node: Node,
    i: usize,
    parts: Parts,
) -> Result<Parts, StoreError>
    requires disk { sectors_of_image tm.old.geometry ≤ (D.state disk.old).size }
    requires inside { node.own < tm.old.geometry.metadata_blocks }
    requires unkept { slice_index tm.old.metadata_kept node.own ≡ 0 }
    requires good { IsNode (node_value node) }
    requires inner { 0 < node.level }
    requires within { i < length node.entries.items }
    requires room { 0 < free_metadata tm.old }
    ensures inside { IfOk result (λ made. AreInside tm.old.geometry.metadata_blocks made) }
    ensures grafted { IfOk result (λ made. IsBetween node.entries.items i (grown parts)
        → CanPlace tm.old.geometry.metadata_blocks tm.old (D.state disk.old) tm.new (D.state disk.new) (with_traded i (grown parts) (node_value node)) (grown made)) }
    ensures damaged { result ≡ Err StoreError.Damaged → IsBetween node.entries.items i (grown parts) → ⊥ }
    ensures ran { Ran 1 (is_fault result) tm.old tm.new (D.state disk.old) (D.state disk.new) }
{
    match parts {
        Parts::Whole(child) => {
            exchange_child(&mut node, i, child);
            write(tm, disk, &node)?;
            Ok(Parts::Whole(node.own.number() as u64))
        }
        Parts::Halves(child, middle, other) => {
            exchange_child(&mut node, i, child);
            put_new(
                tm,
                disk,
                node,
                Entry {
                    key: middle,
                    value: other,
                    mapped: 0,
                    size: 0,
                },
            )
        }
    }
}

/// Writes a node with one entry more, or refuses with `Damaged` where the node has its key already.
fn put_new<D: Disk>(
    tm: &mut Tm,
    disk: &mut D,
    node: Node,
    entry: Entry,
) -> Result<Parts, StoreError>
    requires disk { sectors_of_image tm.old.geometry ≤ (D.state disk.old).size }
    requires inside { node.own < tm.old.geometry.metadata_blocks }
    requires unkept { slice_index tm.old.metadata_kept node.own ≡ 0 }
    requires good { IsNode (node_value node) }
    requires fits { FitsEntry (is_long node.kind node.level) entry }
    requires room { 0 < free_metadata tm.old }
    ensures inside { IfOk result (λ parts. AreInside tm.old.geometry.metadata_blocks parts) }
    ensures placed { IfOk result (λ parts. CanPlace tm.old.geometry.metadata_blocks tm.old (D.state disk.old) tm.new (D.state disk.new) (with_new entry (node_value node)) (grown parts)) }
    ensures damaged { result ≡ Err StoreError.Damaged → found entry.key node.entries.items ≡ None → ⊥ }
    ensures ran { Ran 1 (is_fault result) tm.old tm.new (D.state disk.old) (D.state disk.new) }
{
    match find(&node, entry.key) {
        Some(_) => Err(StoreError::Damaged),
        None => write_with(tm, disk, node, entry),
    }
}

/// The node in these bytes, for the block of number `own`.
pub(crate) fn node_in(bytes: &BlockBytes, kind: TreeKind, own: Mb) -> Node
    requires { SpellsNode kind bytes.now }
    ensures value { (n : NodeValue) → IsNode n → n.kind ≡ kind → bytes.now ≡ node_bytes n → node_value result ≡ record n { own = own } }
    ensures good { IsNode (node_value result) }
    ensures kind { result.kind ≡ kind }
    ensures own { result.own ≡ own }
{
    let mut node = NodeView::known(bytes, kind).to_node();
    let _ = own.number();
    node.own = own;
    node
}

/// Adds an entry below a block of this level at most, whose reference is traded for those to what stands there then.
pub(crate) fn add<D: Disk>(
    tm: &mut Tm,
    disk: &mut D,
    kind: TreeKind,
    from: Mb,
    top: u32,
    entry: Entry,
) -> Result<Parts, StoreError>
    requires disk { sectors_of_image tm.old.geometry ≤ (D.state disk.old).size }
    requires inside { from < tm.old.geometry.metadata_blocks }
    requires fits { FitsEntry (is_long kind 0) entry }
    requires room { 2 * (top + 1) ≤ free_metadata tm.old }
    ensures inside { IfOk result (λ parts. AreInside tm.old.geometry.metadata_blocks parts) }
    ensures grew { IfOk result (λ parts. IsTrue (D.state disk.old).is_honest → (opens held : List ℕ) (s : Store) (k low high : ℕ)
        → Wanted tm.old (D.state disk.old) kind opens held s k low high from (moved_by (first_named tm.old.geometry.metadata_blocks kind 0) entry) → k ≤ top
        → Grew s tm.new (D.state disk.new) kind opens held k low high from (moved_by (first_named tm.old.geometry.metadata_blocks kind 0) entry) (grown parts)) }
    ensures damaged { result ≡ Err StoreError.Damaged → IsTrue (D.state disk.old).is_honest → (opens held : List ℕ) (s : Store) (k low high : ℕ)
        → Wanted tm.old (D.state disk.old) kind opens held s k low high from (moved_by (first_named tm.old.geometry.metadata_blocks kind 0) entry) → k ≤ top → ⊥ }
    ensures room { IsTrue (D.state disk.old).is_honest → (opens held : List ℕ) (s : Store) (k low high : ℕ)
        → Wanted tm.old (D.state disk.old) kind opens held s k low high from (moved_by (first_named tm.old.geometry.metadata_blocks kind 0) entry) → k ≤ top
        → free_metadata tm.old ≤ free_metadata tm.new + 2 * (k + 1) }
    ensures ran { Ran (2 * (top + 1)) (is_fault result) tm.old tm.new (D.state disk.old) (D.state disk.new) }
{
    let mut bytes = [0; BLOCK];
    let own = tm.shadow(disk, from, kind, &mut bytes)?;
    let node = node_in(&bytes, kind, own);
    if node.level == 0 {
        return put_new(tm, disk, node, entry);
    }
    let rank = rank(&node, entry.key);
    if node.level > top {
        return Err(StoreError::Damaged);
    }
    if rank == 0 {
        return Err(StoreError::Damaged);
    }
    let child = block_of(tm, node.entries[rank - 1].value)?;
    let parts = add(tm, disk, kind, child, node.level - 1, entry)?;
    graft(tm, disk, node, rank - 1, parts)
}
