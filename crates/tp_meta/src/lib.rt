//! The metadata of a pool as a whole: how a disk is formatted and opened, and how a store of nodes is committed.
//!
//! `Metadata` is what a pool needs of them, and `Meta` is that over trees.
#![tactic(auto)]

mod committing;
mod devices;
mod ending;
mod formatting;
mod homes;
mod laws;
mod losing;
mod marking;
mod marks;
mod metadata;
mod opening;
mod pool_metadata;
mod stale;
mod whole;

pub use committing::commit_store;
pub use formatting::format;
pub use laws::{changes_leave_the_last_commit, commits_leave_contents};
pub use metadata::{Home, Metadata};
pub use opening::{Opened, open_store};
pub use stale::{AreaMarks, StaleBlocks};
pub use whole::Meta;
