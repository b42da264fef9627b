//! The two superblock slots of a disk: which of them says what the pool is, and the storing of the next superblock.
//!
//! A superblock is stored into the slot that the pool's own superblock does not stand in. So a stop at any moment,
//! also one that comes while the disk fails, leaves the old superblock or the new one, whole.
#![tactic(auto)]

mod laws;
mod loading;
mod storing;

pub use laws::one_choice;
pub use loading::load;
pub use storing::{put, store};
