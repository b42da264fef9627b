//! Volumes in memory, for tests of what serves volumes: two that work, and those of a pool that fails.
#![tactic(auto)]

mod failing;
mod shelf;
mod stages;

pub use failing::{FailingShelf, MidFailing, failing_in_part, failing_shelf};
pub use shelf::{
    MidShelf, Shelf, blank_shelf, paged_shelf, shelf_of_readers, staged_shelf, wide_shelf,
};
