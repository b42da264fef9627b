//! Two nodes side by side, of which one has too few entries.

ghost use Rattle.std.specs.Prelude.{◌≡◌, ◌+◌, ◌<◌, ◌≤◌, ◌++◌, ◌∷◌, ◌⊎◌, ℕ, List, Err, IfErr, IfOk, IsTrue, None, OnOk, false, length, slice_index, suc};
ghost use Rattle.std.specs.List.{remove};
ghost use Rattle.std.specs.List.Sorted.{IsStrictlyIncreasing};
ghost use Rattle.tp_model.specs.Geometry.{sectors_of_image};
ghost use Rattle.tp_counts.specs.StoreErrors.{is_fault};
ghost use Rattle.tp_layout.specs.Node.{IsNode, is_long, keys, least_entries, most_entries};
ghost use Rattle.tp_layout.specs.Value.{node_value};
ghost use Rattle.tp_layout.specs.Entries.{found, with_entry};
ghost use Rattle.tp_refs.specs.Store.{Store};
ghost use Rattle.tp_trees.specs.Growth.{branch, traded};
ghost use Rattle.tp_tm.specs.Tm.{free_metadata};
ghost use Rattle.tp_tm.specs.Holds.{Holds};
ghost use Rattle.tp_btree.specs.Inserts.{AreInside, IsBetween, Ran, grown};
ghost use Rattle.tp_btree.specs.Removes.{CanMend, CanRefit, IsWrittenAlone, Refit};

use crate::growth::exchange_child;
use crate::look_up::block_of;
use crate::opening::open;
use crate::split::{Parts, write, write_two};
use tp_counts::StoreError;
use tp_disk::Disk;
use tp_layout::{Entry, Node};
use tp_model::Mb;
use tp_nodes::{find, join, put, refill, take_at};
use tp_tm::Tm;

/// Whether all keys of a node are below those of another one of its level.
fn is_below(left: &Node, right: &Node) -> bool
    requires left { IsNode (node_value left.now) }
    requires right { IsNode (node_value right.now) }
    requires kind { right.now.kind ≡ left.now.kind }
    requires level { right.now.level ≡ left.now.level }
    ensures yes { IsTrue result → IsStrictlyIncreasing (keys (left.now.entries.items ++ right.now.entries.items)) }
    ensures no { result ≡ false → IsStrictlyIncreasing (keys (left.now.entries.items ++ right.now.entries.items)) → ⊥ }
{
    let count = left.entries.len();
    if count == 0 || right.entries.len() == 0 {
        return true;
    }
    if left.entries[count - 1].key >= right.entries[0].key {
        return false;
    }
    true
}

/// Writes the entries of a node to its open block, and gives the open block of another one up.
fn write_one<D: Disk>(tm: &mut Tm, disk: &mut D, node: &Node, other: Mb) -> Result<(), StoreError>
    requires disk { sectors_of_image tm.old.geometry ≤ (D.state disk.old).size }
    requires inside { node.now.own < tm.old.geometry.metadata_blocks }
    requires other { other < tm.old.geometry.metadata_blocks }
    requires unkept { slice_index tm.old.metadata_kept node.now.own ≡ 0 }
    requires node { IsNode (node_value node.now) }
    ensures written { OnOk result (IsWrittenAlone tm.old.geometry.metadata_blocks tm.old (D.state disk.old) tm.new (D.state disk.new) other (node_value node.now)) }
    ensures damaged { result ≡ Err StoreError.Damaged → (opens held : List ℕ) (s : Store) → Holds tm.old (D.state disk.old) (other ∷ opens) held s → ⊥ }
    ensures ran { Ran 0 (is_fault result) tm.old tm.new (D.state disk.old) (D.state disk.new) }
{
    tm.abandon(other)?;
    write(tm, disk, node)
}

/// Writes the entries of two nodes side by side to the first one's open block, and to the second one's where they do not
/// fit into one. `Damaged` where they do not stand side by side.
fn mend<D: Disk>(
    tm: &mut Tm,
    disk: &mut D,
    mut left: Node,
    mut right: Node,
) -> Result<Parts, StoreError>
    requires disk { sectors_of_image tm.old.geometry ≤ (D.state disk.old).size }
    requires inside { left.own < tm.old.geometry.metadata_blocks }
    requires right_inside { right.own < tm.old.geometry.metadata_blocks }
    requires unkept { slice_index tm.old.metadata_kept left.own ≡ 0 }
    requires right_unkept { slice_index tm.old.metadata_kept right.own ≡ 0 }
    requires good { IsNode (node_value left) }
    requires right_good { IsNode (node_value right) }
    requires kind { right.kind ≡ left.kind }
    ensures inside { IfOk result (λ parts. AreInside tm.old.geometry.metadata_blocks parts) }
    ensures mended { IfOk result (λ parts. CanMend tm.old.geometry.metadata_blocks tm.old (D.state disk.old) tm.new (D.state disk.new) (node_value left) (node_value right) (grown parts)) }
    ensures damaged { result ≡ Err StoreError.Damaged → right.level ≡ left.level → IsStrictlyIncreasing (keys (left.entries.items ++ right.entries.items))
        → (opens held : List ℕ) (s : Store) → Holds tm.old (D.state disk.old) (right.own ∷ opens) held s → ⊥ }
    ensures ran { Ran 0 (is_fault result) tm.old tm.new (D.state disk.old) (D.state disk.new) }
{
    if left.level != right.level {
        return Err(StoreError::Damaged);
    }
    if !is_below(&left, &right) {
        return Err(StoreError::Damaged);
    }
    if left.entries.len() + right.entries.len() <= left.kind.most_entries(left.level) {
        join(&mut left, &right);
        write_one(tm, disk, &left, right.own)?;
        return Ok(Parts::Whole(left.own.number() as u64));
    }
    refill(&mut left, &mut right);
    write_two(tm, disk, &left, &right)?;
    Ok(Parts::Halves(
        left.own.number() as u64,
        right.entries[0].key,
        right.own.number() as u64,
    ))
}

/// Names a block from a key on that no entry has. `Damaged` where one has it.
fn put_other(node: &mut Node, key: u64, child: u64) -> Result<(), StoreError>
    requires good { IsNode (node_value node.old) }
    requires inner { 0 < node.old.level }
    requires room { length node.old.entries.items < most_entries (is_long node.old.kind node.old.level) }
    ensures value { OnOk result (node_value node.new ≡ record (node_value node.old) { entries = with_entry (branch key child) node.old.entries.items }) }
    ensures good { OnOk result (IsNode (node_value node.new)) }
    ensures damaged { result ≡ Err StoreError.Damaged → found key node.old.entries.items ≡ None → ⊥ }
    ensures only { IfErr result (λ error. error ≡ StoreError.Damaged) }
{
    let entry = Entry {
        key,
        value: child,
        mapped: 0,
        size: 0,
    };
    match find(node, key) {
        Some(_) => Err(StoreError::Damaged),
        None => {
            put(node, entry);
            Ok(())
        }
    }
}

/// Names what stands now in place of two children side by side. `Damaged` where the node has the second part's key
/// already.
fn rename(node: &mut Node, index: usize, parts: Parts) -> Result<(), StoreError>
    requires good { IsNode (node_value node.old) }
    requires inner { 0 < node.old.level }
    requires within { index + 1 < length node.old.entries.items }
    ensures renamed { OnOk result (IsBetween (remove node.old.entries.items (index + 1)) index (grown parts)
        → node_value node.new ≡ record (node_value node.old) { entries = traded (remove node.old.entries.items (index + 1)) index (grown parts) }) }
    ensures form { OnOk result ((node.new.kind ≡ node.old.kind) × (node.new.level ≡ node.old.level) × (node.new.own ≡ node.old.own) × IsNode (node_value node.new)) }
    ensures damaged { result ≡ Err StoreError.Damaged → IsBetween (remove node.old.entries.items (index + 1)) index (grown parts) → ⊥ }
    ensures only { IfErr result (λ error. error ≡ StoreError.Damaged) }
{
    take_at(node, index + 1);
    match parts {
        Parts::Whole(child) => {
            exchange_child(node, index, child);
            Ok(())
        }
        Parts::Halves(child, middle, other) => {
            exchange_child(node, index, child);
            put_other(node, middle, other)
        }
    }
}

/// Joins a part with the one before it, which stands at an index of the node, or refills it from there.
fn refit_upper<D: Disk>(
    tm: &mut Tm,
    disk: &mut D,
    node: &mut Node,
    index: usize,
    mut part: Node,
) -> Result<(), StoreError>
    requires disk { sectors_of_image tm.old.geometry ≤ (D.state disk.old).size }
    requires good { IsNode (node_value node.old) }
    requires inner { 0 < node.old.level }
    requires within { index + 1 < length node.old.entries.items }
    requires inside { part.own < tm.old.geometry.metadata_blocks }
    requires unkept { slice_index tm.old.metadata_kept part.own ≡ 0 }
    requires part { IsNode (node_value part) }
    requires kind { part.kind ≡ node.old.kind }
    requires room { 0 < free_metadata tm.old }
    ensures form { OnOk result ((node.new.kind ≡ node.old.kind) × (node.new.level ≡ node.old.level) × (node.new.own ≡ node.old.own) × IsNode (node_value node.new)) }
    ensures refitted { OnOk result (IsTrue (D.state disk.old).is_honest → (opens held : List ℕ) (s : Store) (k low high : ℕ)
        → CanRefit tm.old.geometry.metadata_blocks tm.old (D.state disk.old) node.old.kind node.old.entries.items (suc index) (node_value part) opens held s k low high
        → Refit tm.old.geometry.metadata_blocks s tm.new (D.state disk.new) node.old.kind node.old.entries.items (suc index) (node_value part) opens held k low high node.new.entries.items) }
    ensures damaged { result ≡ Err StoreError.Damaged → IsTrue (D.state disk.old).is_honest → (opens held : List ℕ) (s : Store) (k low high : ℕ)
        → CanRefit tm.old.geometry.metadata_blocks tm.old (D.state disk.old) node.old.kind node.old.entries.items (suc index) (node_value part) opens held s k low high → ⊥ }
    ensures ran { Ran 1 (is_fault result) tm.old tm.new (D.state disk.old) (D.state disk.new) }
{
    let child = block_of(tm, node.entries[index].value)?;
    let mut left = open(tm, disk, node.kind, child, part.level)?;
    let other = left.own;
    left.own = part.own;
    part.own = other;
    let parts = mend(tm, disk, left, part)?;
    rename(node, index, parts)
}

/// Joins the first part with the one behind it, or refills it from there.
fn refit_first<D: Disk>(
    tm: &mut Tm,
    disk: &mut D,
    node: &mut Node,
    part: Node,
) -> Result<(), StoreError>
    requires disk { sectors_of_image tm.old.geometry ≤ (D.state disk.old).size }
    requires good { IsNode (node_value node.old) }
    requires inner { 0 < node.old.level }
    requires within { 1 < length node.old.entries.items }
    requires inside { part.own < tm.old.geometry.metadata_blocks }
    requires unkept { slice_index tm.old.metadata_kept part.own ≡ 0 }
    requires part { IsNode (node_value part) }
    requires kind { part.kind ≡ node.old.kind }
    requires room { 0 < free_metadata tm.old }
    ensures form { OnOk result ((node.new.kind ≡ node.old.kind) × (node.new.level ≡ node.old.level) × (node.new.own ≡ node.old.own) × IsNode (node_value node.new)) }
    ensures refitted { OnOk result (IsTrue (D.state disk.old).is_honest → (opens held : List ℕ) (s : Store) (k low high : ℕ)
        → CanRefit tm.old.geometry.metadata_blocks tm.old (D.state disk.old) node.old.kind node.old.entries.items 0 (node_value part) opens held s k low high
        → Refit tm.old.geometry.metadata_blocks s tm.new (D.state disk.new) node.old.kind node.old.entries.items 0 (node_value part) opens held k low high node.new.entries.items) }
    ensures damaged { result ≡ Err StoreError.Damaged → IsTrue (D.state disk.old).is_honest → (opens held : List ℕ) (s : Store) (k low high : ℕ)
        → CanRefit tm.old.geometry.metadata_blocks tm.old (D.state disk.old) node.old.kind node.old.entries.items 0 (node_value part) opens held s k low high → ⊥ }
    ensures ran { Ran 1 (is_fault result) tm.old tm.new (D.state disk.old) (D.state disk.new) }
{
    let child = block_of(tm, node.entries[1].value)?;
    let right = open(tm, disk, node.kind, child, part.level)?;
    let parts = mend(tm, disk, part, right)?;
    rename(node, 0, parts)
}

/// Writes a part that has enough entries.
fn refit_whole<D: Disk>(
    tm: &mut Tm,
    disk: &mut D,
    node: &mut Node,
    index: usize,
    part: &Node,
) -> Result<(), StoreError>
    requires disk { sectors_of_image tm.old.geometry ≤ (D.state disk.old).size }
    requires good { IsNode (node_value node.old) }
    requires inner { 0 < node.old.level }
    requires within { index < length node.old.entries.items }
    requires inside { part.now.own < tm.old.geometry.metadata_blocks }
    requires unkept { slice_index tm.old.metadata_kept part.now.own ≡ 0 }
    requires part { IsNode (node_value part.now) }
    requires kind { part.now.kind ≡ node.old.kind }
    requires full { least_entries (is_long part.now.kind part.now.level) ≤ length part.now.entries.items }
    ensures form { OnOk result ((node.new.kind ≡ node.old.kind) × (node.new.level ≡ node.old.level) × (node.new.own ≡ node.old.own) × IsNode (node_value node.new)) }
    ensures refitted { OnOk result (IsTrue (D.state disk.old).is_honest → (opens held : List ℕ) (s : Store) (k low high : ℕ)
        → CanRefit tm.old.geometry.metadata_blocks tm.old (D.state disk.old) node.old.kind node.old.entries.items index (node_value part.now) opens held s k low high
        → Refit tm.old.geometry.metadata_blocks s tm.new (D.state disk.new) node.old.kind node.old.entries.items index (node_value part.now) opens held k low high node.new.entries.items) }
    ensures damaged { result ≡ Err StoreError.Damaged → IsTrue (D.state disk.old).is_honest → (opens held : List ℕ) (s : Store) (k low high : ℕ)
        → CanRefit tm.old.geometry.metadata_blocks tm.old (D.state disk.old) node.old.kind node.old.entries.items index (node_value part.now) opens held s k low high → ⊥ }
    ensures ran { Ran 0 (is_fault result) tm.old tm.new (D.state disk.old) (D.state disk.new) }
{
    write(tm, disk, part)?;
    exchange_child(node, index, part.own.number() as u64);
    Ok(())
}

/// Writes the part below an entry of a node to its open block. Where it has too few entries, it is joined with the part
/// beside it, or refilled from there.
///
/// It refuses with `Fault` where a read or a write failed, and with `Damaged` where the part beside it spells no node of
/// its place.
pub(crate) fn refit<D: Disk>(
    tm: &mut Tm,
    disk: &mut D,
    node: &mut Node,
    index: usize,
    part: Node,
) -> Result<(), StoreError>
    requires disk { sectors_of_image tm.old.geometry ≤ (D.state disk.old).size }
    requires good { IsNode (node_value node.old) }
    requires inner { 0 < node.old.level }
    requires within { index < length node.old.entries.items }
    requires inside { part.own < tm.old.geometry.metadata_blocks }
    requires unkept { slice_index tm.old.metadata_kept part.own ≡ 0 }
    requires part { IsNode (node_value part) }
    requires kind { part.kind ≡ node.old.kind }
    requires room { 0 < free_metadata tm.old }
    ensures form { OnOk result ((node.new.kind ≡ node.old.kind) × (node.new.level ≡ node.old.level) × (node.new.own ≡ node.old.own) × IsNode (node_value node.new)) }
    ensures refitted { OnOk result (IsTrue (D.state disk.old).is_honest → (opens held : List ℕ) (s : Store) (k low high : ℕ)
        → CanRefit tm.old.geometry.metadata_blocks tm.old (D.state disk.old) node.old.kind node.old.entries.items index (node_value part) opens held s k low high
        → Refit tm.old.geometry.metadata_blocks s tm.new (D.state disk.new) node.old.kind node.old.entries.items index (node_value part) opens held k low high node.new.entries.items) }
    ensures damaged { result ≡ Err StoreError.Damaged → IsTrue (D.state disk.old).is_honest → (opens held : List ℕ) (s : Store) (k low high : ℕ)
        → CanRefit tm.old.geometry.metadata_blocks tm.old (D.state disk.old) node.old.kind node.old.entries.items index (node_value part) opens held s k low high → ⊥ }
    ensures ran { Ran 1 (is_fault result) tm.old tm.new (D.state disk.old) (D.state disk.new) }
{
    if part.entries.len() >= part.kind.most_entries(part.level) / 2 {
        return refit_whole(tm, disk, node, index, &part);
    }
    if index > 0 {
        return refit_upper(tm, disk, node, index - 1, part);
    }
    if node.entries.len() < 2 {
        return Err(StoreError::Damaged);
    }
    refit_first(tm, disk, node, part)
}
