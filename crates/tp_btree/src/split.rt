//! A node that grows: one entry more, in its block or in that and a second one.

ghost use Rattle.std.specs.Prelude.{◌≡◌, ◌+◌, ◌<◌, ◌≤◌, ◌++◌, ◌∷◌, ℕ, List, IfErr, IfOk, None, OnOk, length, slice_index, slice_set};
ghost use Rattle.tp_model.specs.Geometry.{sectors_of_image};
ghost use Rattle.tp_counts.specs.StoreErrors.{is_fault};
ghost use Rattle.tp_layout.specs.Node.{FitsEntry, IsNode, is_long, least_entries, most_entries};
ghost use Rattle.tp_layout.specs.Value.{node_value};
ghost use Rattle.tp_layout.specs.Entries.{first_key, found, with_entry};
ghost use Rattle.tp_refs.specs.Store.{MayName, Store, count_of, node_at, node_from, values};
ghost use Rattle.tp_refs.specs.Balance.{occurrences};
ghost use Rattle.tp_tm.specs.Tm.{free_metadata};
ghost use Rattle.tp_tm.specs.Holds.{Holds};
ghost use Rattle.tp_btree.specs.Inserts.{AreInside, AreWritten, CanPlace, IsWritten, Ran, grown, with_new};

use tp_counts::StoreError;
use tp_disk::{Disk, Fault};
use tp_layout::{Entry, Node};
use tp_model::Mb;
use tp_nodes::{put, split};
use tp_tm::Tm;

/// The numbers of the blocks that stand in place of a node: one, or two with the first key of the second.
#[derive(Clone, Copy)]
pub(crate) enum Parts {
    Whole(u64),
    Halves(u64, u64, u64),
}

/// Writes a node to its open block.
pub(crate) fn write<D: Disk>(tm: &mut Tm, disk: &mut D, node: &Node) -> Result<(), StoreError>
    requires disk { sectors_of_image tm.old.geometry ≤ (D.state disk.old).size }
    requires inside { node.now.own < tm.old.geometry.metadata_blocks }
    requires unkept { slice_index tm.old.metadata_kept node.now.own ≡ 0 }
    requires node { IsNode (node_value node.now) }
    ensures written { OnOk result (IsWritten tm.old.geometry.metadata_blocks tm.old (D.state disk.old) tm.new (D.state disk.new) (node_value node.now)) }
    ensures only { IfErr result (λ error. error ≡ StoreError.Fault) }
    ensures unchanged { tm.new ≡ tm.old }
    ensures ran { Ran 0 (is_fault result) tm.old tm.new (D.state disk.old) (D.state disk.new) }
{
    match tm.write(disk, node) {
        Ok(()) => Ok(()),
        Err(Fault) => Err(StoreError::Fault),
    }
}

/// Splits a full node, and puts an entry with a new key into its half. The upper half is for the block of number `own`.
fn split_put(node: &mut Node, own: Mb, entry: Entry) -> Node
    requires good { IsNode (node_value node.old) }
    requires full { length node.old.entries.items ≡ most_entries (is_long node.old.kind node.old.level) }
    requires fits { FitsEntry (is_long node.old.kind node.old.level) entry }
    requires new_key { found entry.key node.old.entries.items ≡ None }
    ensures left { node_value node.new ≡ record (node_value node.old) { entries = node.new.entries.items } }
    ensures right { node_value result ≡ record { kind = node.old.kind; level = node.old.level; own = own; entries = result.entries.items } }
    ensures whole { node.new.entries.items ++ result.entries.items ≡ with_entry entry node.old.entries.items }
    ensures left_full { least_entries (is_long node.old.kind node.old.level) ≤ length node.new.entries.items }
    ensures right_full { least_entries (is_long node.old.kind node.old.level) ≤ length result.entries.items }
    ensures left_good { IsNode (node_value node.new) }
    ensures right_good { IsNode (node_value result) }
{
    let mut upper = split(node, own);
    if entry.key < upper.entries[0].key {
        put(node, entry);
    } else {
        put(&mut upper, entry);
    }
    upper
}

/// Writes two nodes to their open blocks, first the one with the greater keys.
pub(crate) fn write_two<D: Disk>(
    tm: &mut Tm,
    disk: &mut D,
    lower: &Node,
    upper: &Node,
) -> Result<(), StoreError>
    requires disk { sectors_of_image tm.old.geometry ≤ (D.state disk.old).size }
    requires inside { lower.now.own < tm.old.geometry.metadata_blocks }
    requires upper_place { upper.now.own < tm.old.geometry.metadata_blocks }
    requires unkept { slice_index tm.old.metadata_kept lower.now.own ≡ 0 }
    requires upper_unkept { slice_index tm.old.metadata_kept upper.now.own ≡ 0 }
    requires node { IsNode (node_value lower.now) }
    requires upper_node { IsNode (node_value upper.now) }
    ensures written { OnOk result (AreWritten tm.old.geometry.metadata_blocks tm.old (D.state disk.old) tm.new (D.state disk.new) (node_value lower.now) (node_value upper.now)) }
    ensures only { IfErr result (λ error. error ≡ StoreError.Fault) }
    ensures unchanged { tm.new ≡ tm.old }
    ensures ran { Ran 0 (is_fault result) tm.old tm.new (D.state disk.old) (D.state disk.new) }
{
    write(tm, disk, upper)?;
    write(tm, disk, lower)
}

/// Writes a node with one entry more to its open block. A full node is split, and its upper half goes to a fresh
/// block.
pub(crate) fn write_with<D: Disk>(
    tm: &mut Tm,
    disk: &mut D,
    mut node: Node,
    entry: Entry,
) -> Result<Parts, StoreError>
    requires disk { sectors_of_image tm.old.geometry ≤ (D.state disk.old).size }
    requires inside { node.own < tm.old.geometry.metadata_blocks }
    requires unkept { slice_index tm.old.metadata_kept node.own ≡ 0 }
    requires good { IsNode (node_value node) }
    requires fits { FitsEntry (is_long node.kind node.level) entry }
    requires new_key { found entry.key node.entries.items ≡ None }
    requires room { 0 < free_metadata tm.old }
    ensures inside { IfOk result (λ parts. AreInside tm.old.geometry.metadata_blocks parts) }
    ensures placed { IfOk result (λ parts. CanPlace tm.old.geometry.metadata_blocks tm.old (D.state disk.old) tm.new (D.state disk.new) (with_new entry (node_value node)) (grown parts)) }
    ensures only { IfErr result (λ error. error ≡ StoreError.Fault) }
    ensures ran { Ran 1 (is_fault result) tm.old tm.new (D.state disk.old) (D.state disk.new) }
{
    if node.entries.len() < node.kind.most_entries(node.level) {
        put(&mut node, entry);
        write(tm, disk, &node)?;
        return Ok(Parts::Whole(node.own.number() as u64));
    }
    let own = tm.fresh();
    let upper = split_put(&mut node, own, entry);
    write_two(tm, disk, &node, &upper)?;
    Ok(Parts::Halves(
        node.own.number() as u64,
        upper.entries[0].key,
        own.number() as u64,
    ))
}
