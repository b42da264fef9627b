//! What a tree does to one of its nodes.
//!
//! A node is a list of entries by strictly ascending keys. A node that is no root has half of the most entries at
//! least: 126 of 252, and 63 of 126 in a leaf of the device tree. Here a node is searched and changed, a full one is
//! split, and one that has too few entries is joined to its sibling, or refilled from it.
//!
//! A node holds its entries itself, so that no call takes memory. No call refuses: what a call needs is its condition,
//! and the tests for it are `find`, `rank` and the number of entries.
#![tactic(auto)]

mod change;
mod halves;
mod lookup;

pub use change::{empty, insert_behind, put, replace, replace_at, take, take_at};
pub use halves::{join, refill, split};
pub use lookup::{child_index, find, rank};
