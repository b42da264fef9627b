//! Trees on the disk, of which a changed node is a new one.
//!
//! A tree is known by the block of its root. Trees share blocks: a block that something else names too is never written,
//! and a change makes a copy of each such node on its path. No call takes memory.
#![tactic(auto)]

mod extent;
mod growth;
mod insertion;
mod least;
mod look_up;
mod look_up_run;
mod opening;
mod refit;
mod removal;
mod replacement;
mod roots;
mod split;
mod step;
mod walks;

pub use extent::{count, last};
pub use insertion::insert;
pub use least::least_from;
pub use look_up::{Found, block_of, lookup};
pub use look_up_run::lookup_run;
pub use removal::remove;
pub use replacement::{Changed, replace};
pub use roots::{drop_tree, empty, share};
pub use walks::walk;
