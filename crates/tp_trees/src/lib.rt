//! Trees of nodes in the store: definitions above the references, and laws about them alone.
//!
//! `specs/` says what a tree is, what its content is, and what an insertion, a replacement or a removal makes of it. None
//! of it is about code: the trees on the disk and the mapping above them cite the same definitions.
#![tactic(auto)]

mod laws;

pub use laws::{
    changes_are_at_the_key, entries_are_by_paths, framed_trees_stay, whole_trees_are_low,
    whole_trees_have_few_nodes,
};
