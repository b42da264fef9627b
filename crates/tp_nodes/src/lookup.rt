//! Places of keys.

ghost use Rattle.std.specs.Prelude.{◌≡◌, ◌+◌, ◌<◌, ◌≤◌, length, slice_get, slice_set, IsSome};
ghost use Rattle.std.specs.List.{remove};
ghost use Rattle.std.specs.List.Sorted.{IsStrictlyIncreasing};
ghost use Rattle.tp_layout.specs.Node.{IsNode, keys};
ghost use Rattle.tp_layout.specs.Value.{node_value};
ghost use Rattle.tp_layout.specs.Entries.{rank_of, found, with_entry, without_key};
ghost use Rattle.tp_layout.specs.declared.entry.Entry.{Entry};

use tp_layout::{Entry, Node};

/// How many of the entries have a key that is at most this one.
fn rank_in(entries: &[Entry], key: u64) -> usize
    requires { IsStrictlyIncreasing (keys entries.now) }
    ensures value { result ≡ rank_of key entries.now }
    ensures within { result ≤ length entries.now }
{
    let mut low = 0;
    let mut high = entries.len();
    while low < high {
        let middle = low + (high - low) / 2;
        if entries[middle].key <= key {
            low = middle + 1;
        } else {
            high = middle;
        }
    }
    low
}

/// How many entries have a key that is at most this one: where it is over 0, the entry before this index is the last
/// of them. The cost is logarithmic.
pub fn rank(node: &Node, key: u64) -> usize
    requires good { IsNode (node_value node.now) }
    ensures value { result ≡ rank_of key node.now.entries.items }
    ensures within { result ≤ length node.now.entries.items }
{
    rank_in(node.entries.as_slice(), key)
}

/// The entry with this key, if there is one.
pub fn find(node: &Node, key: u64) -> Option<Entry>
    requires good { IsNode (node_value node.now) }
    ensures { result ≡ found key node.now.entries.items }
{
    let rank = rank(node, key);
    if rank == 0 {
        return None;
    }
    let entry = node.entries[rank - 1];
    if entry.key == key { Some(entry) } else { None }
}

/// The index of the entry that has the key.
pub(crate) fn index_of(node: &Node, key: u64) -> usize
    requires good { IsNode (node_value node.now) }
    requires there { IsSome (found key node.now.entries.items) }
    ensures within { result < length node.now.entries.items }
    ensures there { slice_get node.now.entries.items result ≡ found key node.now.entries.items }
    ensures without { remove node.now.entries.items result ≡ without_key key node.now.entries.items }
    ensures with { (e : Entry) → e.key ≡ key → slice_set node.now.entries.items result e ≡ with_entry e node.now.entries.items }
{
    rank(node, key) - 1
}

/// The index of the child in whose interval the key lies: the last entry with a key that is at most this one.
pub fn child_index(node: &Node, key: u64) -> usize
    requires good { IsNode (node_value node.now) }
    requires some { 0 < rank_of key node.now.entries.items }
    ensures value { result + 1 ≡ rank_of key node.now.entries.items }
    ensures within { result < length node.now.entries.items }
{
    rank(node, key) - 1
}
