//! The words of a command line, and the tasks that they name.
//!
//! [`words`] takes them from the system, and [`command`] reads them by `clap`: what it makes of them is said by `tp_tasks/specs/CommandLine`.
#![tactic(auto)]

mod command_line;
mod listing;
mod making;
mod reading;
mod running;

pub use command_line::command;
pub use reading::{NoWords, words};
pub use tp_tasks::{
    Asked, Image, Listing, Service, Sizes, SocketRights, Task, Texts, Unread, Wanted,
};
