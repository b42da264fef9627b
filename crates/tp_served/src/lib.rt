//! The pool as programs use it: a disk, caches of its metadata blocks, and a pool on them.
//!
//! Changed metadata blocks stay in memory until a commit writes them; blocks that were read are held. What each call says of stops,
//! failures and flushes is said of the disk that the caller gave.
#![tactic(auto)]

mod calls;
mod flushing;
mod inside;
mod laws;
mod lent;
mod managed;
mod modes;
mod opening;
mod served;
mod volumes;

pub use flushing::MidServed;
pub use laws::room_on_caches_lasts;
pub use opening::Room;
pub use served::Served;
