//! Clients of a hub, each on a thread of its own.
//!
//! [`serve_all`] takes streams as they come, and carries each on a thread of its own over one hub behind a lock ([`HubLock`]). An [`Alarm`] is told when the pool
//! behind it fails.
//! [`serve_listener`] takes them from a listener, as [`Socket`]s, and closes it behind the last one; [`serve_listener_with_control`] answers control lines
//! from another listener beside them. [`serve_until_stopped`] takes them without end, 64 at a time, from TCP addresses and socket files ([`Door`]).
//!
//! All that a client is told, and all that becomes of the pool, is said in `tp_hub`, which knows no threads; how clients have the hub one after another, in
//! `tp_lock`.
#![tactic(auto)]

mod ahead;
mod alive;
mod chronicle;
mod control;
mod crowd;
mod door;
mod ending;
mod fetching;
mod frames;
mod gate;
mod guest;
mod listening;
mod noticing;
mod pause;
mod polled;
mod queue;
mod ruling;
mod sockets;
mod staying;

pub use ahead::Crew;
pub use chronicle::{Chronicle, Visit, Visitor};
pub use control::serve_listener_with_control;
pub use crowd::{Served, serve_all};
pub use door::Door;
pub use listening::serve_listener;
pub use sockets::Socket;
pub use staying::{Stayed, serve_until_stopped};
pub use tp_lock::{Alarm, HubLock, LockedDesk, Start};
