//! The accounting of references: definitions above the nodes, and laws about them alone.
//!
//! `specs/` says what a store of nodes with counts is (`Store`), when its counts are those of the references to each block
//! (`Balance`), and what can be reached from the references that are held (`Reach`). None of it is about code: the store
//! of nodes and the trees above it cite the same definitions.
#![tactic(auto)]

mod laws;

pub use laws::{
    live_blocks_are_reached, lower_nodes_stay, single_changes_keep_the_balance,
    stops_keep_the_commit,
};
