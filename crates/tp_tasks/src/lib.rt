//! The tasks that a command line names, and what its commands and their arguments are.
//!
//! [`task_of`] makes a task of what `clap` found: the commands that it knows are made in the crate above, as `specs/CommandLine` says them.
#![tactic(auto)]

mod creating;
mod listings;
mod services;
mod task;
mod tasks;

pub use creating::fault_of_create;
pub use services::fault_of_run;
pub use task::{Asked, Image, Listing, Service, Sizes, SocketRights, Task, Texts, Unread, Wanted};
pub use tasks::{is_explained_after, task_of};
