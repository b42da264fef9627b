//! The map from virtual blocks of devices to data blocks.
//!
//! `Mapping` is what a pool needs of it. Its contract says what each call makes of the devices and their slots, in words of
//! lists: a slot is a virtual block that has a data block, and two slots with one data block share it.
#![tactic(auto)]

mod emptying;
mod forest;
mod held_runs;
mod mapped;
mod mapping;
mod reserving;
mod runs;
mod sizes;
mod tree_changes;
mod tree_mapping;
mod tree_next;
mod tree_reads;
mod tree_runs;
mod trees;
mod volume;

pub use mapped::Mapped;
pub use mapping::{MOST_RUN, Mapping};
pub use trees::TreeMapping;
