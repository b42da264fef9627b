//! The checker of an image: whether it is clean, or what is wrong with it.
//!
//! The image is read through the disk, the superblock's slots and the layout alone; no walk is shared with the trees of
//! the pool. Nothing is written.
#![tactic(auto)]

mod checking;
mod error;
mod node;
mod opening;
mod stored;
mod summary;
mod walk;

pub use checking::check;
pub use error::CheckError;
