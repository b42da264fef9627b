//! The texts of listings: runs of blocks, where two volumes may differ, what each volume has, and the sizes of a pool. They are written to a stream line by line, or as one line of
//! JSON, through a buffer of 4096 bytes, so that a long listing costs few writes; nothing is allocated.
#![tactic(auto)]

mod delta;
mod lines;
mod objects;
mod part_objects;
mod run_objects;
mod runs;
mod sizes;
mod usage_objects;
mod usages;

pub use delta::write_delta;
pub use objects::texts_read_back;
pub use part_objects::write_delta_json;
pub use run_objects::write_runs_json;
pub use runs::write_runs;
pub use sizes::write_sizes;
pub use usage_objects::write_usages_json;
pub use usages::write_usages;
