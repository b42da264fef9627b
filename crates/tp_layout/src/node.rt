//! A node as a value of a fixed size, and its block of 4096 bytes.
//!
//! | Offset | Size | Field |
//! |---|---|---|
//! | 0 | 4 | kind: 1 device tree, 2 mapping tree |
//! | 4 | 4 | level: 0 for a leaf, at most 2 in the device tree and 3 in a mapping tree |
//! | 8 | 8 | number of this block |
//! | 16 | 4 | count of entries: at most 126 in a leaf of the device tree, 252 in another node |
//! | 20 | 44 | 0 |
//! | 64 | 4032 | entries, by strictly ascending keys, then 0 |

ghost use Rattle.std.specs.Prelude.{◌≡◌, ◌≤◌, ◌+◌, ◌*◌, ◌++◌, length, take, drop};
ghost use Rattle.std.specs.List.{flat_map};
ghost use Rattle.tp_layout.specs.Node.{IsNode, entry_bytes, entry_len, node_bytes};
ghost use Rattle.tp_layout.specs.Value.{node_value};

use crate::entry::Entry;
use crate::kind::{TreeKind, entry_len_of, is_long_of};
use crate::numbers::{BlockBytes, clear, put_u32, put_u64};
use arrayvec::ArrayVec;
use tp_model::Mb;

/// The most entries of any node.
pub const MOST_ENTRIES: usize = 252;

/// A node that can be changed, of about 6 KB. It holds its entries itself, so no call on it takes memory.
#[derive(Drop)]
pub struct Node {
    pub kind: TreeKind,
    pub level: u32,
    /// The block that the node stands in.
    pub own: Mb,
    /// By strictly ascending keys.
    pub entries: ArrayVec<Entry, MOST_ENTRIES>,
}

/// Writes an entry over the bytes at a place.
fn put_entry(bytes: &mut [u8], at: usize, long: bool, entry: &Entry)
    requires { at + entry_len long ≤ length bytes.old }
    ensures { bytes.new ≡ take at bytes.old ++ (entry_bytes long entry.now ++ drop (at + entry_len long) bytes.old) }
{
    put_u64(bytes, at, entry.key);
    put_u64(bytes, at + 8, entry.value);
    if long {
        put_u64(bytes, at + 16, entry.mapped);
        put_u64(bytes, at + 24, entry.size);
    }
}

/// Writes the entries behind the head of a block that is zero there.
fn put_entries(bytes: &mut [u8], long: bool, entries: &[Entry])
    requires room { 64 + entry_len long * length entries.now ≤ length bytes.old }
    ensures { bytes.new ≡ take 64 bytes.old ++ (flat_map (entry_bytes long) entries.now ++ drop (64 + entry_len long * length entries.now) bytes.old) }
{
    let mut at = 64;
    for entry in entries {
        put_entry(bytes, at, long, entry);
        at += entry_len_of(long);
    }
}

/// Writes a node over its block, up to its last byte.
pub fn write_node(node: &Node, block: &mut BlockBytes)
    requires { IsNode (node_value node.now) }
    ensures { block.new ≡ node_bytes (node_value node.now) }
{
    let long = is_long_of(node.kind, node.level);
    let entries = node.entries.as_slice();
    clear(block);
    put_u32(block, 0, node.kind.number());
    put_u32(block, 4, node.level);
    put_u64(block, 8, node.own.number() as u64);
    put_u32(block, 16, entries.len() as u32);
    put_entries(block, long, entries);
}
