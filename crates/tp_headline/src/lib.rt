//! The headline, and what joins one command of the program to the next: laws over the contracts of the floors below, and users of the commands.
//!
//! Nothing stands on this crate.
#![tactic(auto)]

mod headline;
mod users;

pub use headline::{commands_go_on, images_go_on, served_pools_are_plain, stored_pools_are_plain};
pub use users::{make_and_tell, make_stop_and_tell};
