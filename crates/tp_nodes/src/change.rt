//! One entry more, another one, or one less.

ghost use Rattle.std.specs.Prelude.{◌≡◌, ◌+◌, ◌<◌, ◌≤◌, [], length, insert, slice_get, slice_set, IsSome, Some, None};
ghost use Rattle.std.specs.List.{remove};
ghost use Rattle.std.specs.List.Sorted.{IsStrictlyIncreasing};
ghost use Rattle.tp_layout.specs.Node.{FitsEntry, IsNode, is_long, keys, most_entries, most_level};
ghost use Rattle.tp_layout.specs.Value.{node_value};
ghost use Rattle.tp_layout.specs.Entries.{found, with_entry, without_key};

use crate::lookup::{index_of, rank};
use arrayvec::ArrayVec;
use tp_layout::{Entry, MOST_ENTRIES, Node, TreeKind};
use tp_model::Mb;

/// Puts another entry at an index, and gives back the one that stood there.
fn exchange(entries: &mut ArrayVec<Entry, MOST_ENTRIES>, index: usize, entry: Entry) -> Entry
    requires { index < length entries.old.items }
    ensures before { slice_get entries.old.items index ≡ Some result }
    ensures after { entries.new.items ≡ slice_set entries.old.items index entry }
{
    let before = entries[index];
    entries[index] = entry;
    before
}

/// A node without entries, for the block of number `own`.
pub fn empty(kind: TreeKind, level: u32, own: Mb) -> Node
    requires { level ≤ most_level kind }
    ensures value { node_value result ≡ record { kind = kind; level = level; own = own; entries = [] } }
    ensures good { IsNode (node_value result) }
{
    Node {
        kind,
        level,
        own,
        entries: ArrayVec::new(),
    }
}

/// Puts an entry with a new key in its place.
pub fn put(node: &mut Node, entry: Entry)
    requires good { IsNode (node_value node.old) }
    requires fits { FitsEntry (is_long node.old.kind node.old.level) entry }
    requires room { length node.old.entries.items < most_entries (is_long node.old.kind node.old.level) }
    requires new_key { found entry.key node.old.entries.items ≡ None }
    ensures value { node_value node.new ≡ record (node_value node.old) { entries = with_entry entry node.old.entries.items } }
    ensures len { length node.new.entries.items ≡ length node.old.entries.items + 1 }
    ensures good { IsNode (node_value node.new) }
{
    let index = rank(node, entry.key);
    node.entries.insert(index, entry);
}

/// Puts an entry in the place of the one that has its key, and gives that one back.
pub fn replace(node: &mut Node, entry: Entry) -> Entry
    requires good { IsNode (node_value node.old) }
    requires fits { FitsEntry (is_long node.old.kind node.old.level) entry }
    requires there { IsSome (found entry.key node.old.entries.items) }
    ensures before { found entry.key node.old.entries.items ≡ Some result }
    ensures value { node_value node.new ≡ record (node_value node.old) { entries = with_entry entry node.old.entries.items } }
    ensures len { length node.new.entries.items ≡ length node.old.entries.items }
    ensures good { IsNode (node_value node.new) }
{
    let index = index_of(node, entry.key);
    exchange(&mut node.entries, index, entry)
}

/// Takes out the entry that has the key.
pub fn take(node: &mut Node, key: u64) -> Entry
    requires good { IsNode (node_value node.old) }
    requires there { IsSome (found key node.old.entries.items) }
    ensures taken { found key node.old.entries.items ≡ Some result }
    ensures value { node_value node.new ≡ record (node_value node.old) { entries = without_key key node.old.entries.items } }
    ensures len { length node.new.entries.items + 1 ≡ length node.old.entries.items }
    ensures good { IsNode (node_value node.new) }
{
    let index = index_of(node, key);
    node.entries.remove(index)
}

/// Puts another entry at an index, between the keys of its neighbours, and gives back the one that stood there.
pub fn replace_at(node: &mut Node, index: usize, entry: Entry) -> Entry
    requires good { IsNode (node_value node.old) }
    requires fits { FitsEntry (is_long node.old.kind node.old.level) entry }
    requires within { index < length node.old.entries.items }
    requires ascending { IsStrictlyIncreasing (keys (slice_set node.old.entries.items index entry)) }
    ensures before { slice_get node.old.entries.items index ≡ Some result }
    ensures value { node_value node.new ≡ record (node_value node.old) { entries = slice_set node.old.entries.items index entry } }
    ensures good { IsNode (node_value node.new) }
{
    exchange(&mut node.entries, index, entry)
}

/// Puts an entry in behind the one at an index, as the upper part of a child that was split. Its key lies between those
/// of its neighbours.
pub fn insert_behind(node: &mut Node, index: usize, entry: Entry)
    requires good { IsNode (node_value node.old) }
    requires fits { FitsEntry (is_long node.old.kind node.old.level) entry }
    requires room { length node.old.entries.items < most_entries (is_long node.old.kind node.old.level) }
    requires within { index < length node.old.entries.items }
    requires ascending { IsStrictlyIncreasing (keys (insert node.old.entries.items (index + 1) entry)) }
    ensures value { node_value node.new ≡ record (node_value node.old) { entries = insert node.old.entries.items (index + 1) entry } }
    ensures good { IsNode (node_value node.new) }
{
    node.entries.insert(index + 1, entry);
}

/// Takes out the entry at an index.
pub fn take_at(node: &mut Node, index: usize) -> Entry
    requires good { IsNode (node_value node.old) }
    requires within { index < length node.old.entries.items }
    ensures taken { slice_get node.old.entries.items index ≡ Some result }
    ensures value { node_value node.new ≡ record (node_value node.old) { entries = remove node.old.entries.items index } }
    ensures good { IsNode (node_value node.new) }
{
    node.entries.remove(index)
}
