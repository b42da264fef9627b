//! The layout of a thin pool's metadata in bytes: superblock, count block and node.
//!
//! The layout is this project's own. All numbers are little-endian, and every size and offset below is in bytes.
//! For each of the three there is a definition in `specs/` that spells a value as bytes: what a reader answers is
//! a good value whose spelling was read, a reader refuses only bytes that spell no good value, and a writer
//! leaves the spelling of its value.
#![tactic(auto)]

mod counts;
mod damaged;
mod entry;
mod kind;
mod node;
mod numbers;
mod superblock;
mod view;

pub use counts::{COUNTS_PER_BLOCK, Part, read_counts, write_counts};
pub use damaged::Damaged;
pub use entry::Entry;
pub use kind::TreeKind;
pub use node::{MOST_ENTRIES, Node, write_node};
pub use numbers::{BlockBytes, SectorBytes};
pub use superblock::{Slot, SlotId, Superblock, Version, read_super, write_super};
pub use view::{NodeView, level_of, node_damage};
