//! The programs of a thin pool, over images and one pool in memory: what the words of a command line ask for, and how it is done.
//!
//! [`program`] does it, over images, a reader and two writers that its caller gives. `thinpool` is that with the system's words, streams and files. What a command does that has
//! a pool alone is in `tp_commands`; those that serve many clients at once are here.
#![tactic(auto)]

mod clients;
mod journal;
mod moment;
mod programs;
mod running;
mod space;
mod streams;

pub use programs::{Status, program, without_streams, without_words};
pub use streams::{Stand, Terminals, Timed, stand_in};
