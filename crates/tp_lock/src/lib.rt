//! A hub that many threads ask, behind a lock.
//!
//! A [`LockedDesk`] asks the hub behind a [`HubLock`], which is taken for one ask at a time, and shared by READs and BLOCK_STATUSes. An [`Alarm`] is told
//! when the pool behind it fails. Who wants the hub alone has its turn first, and waits awake only where that pays ([`Patience`]). A commit
//! is made in parts, between which READs go on, for the event that asks for it.
//!
//! [`put_census`] writes a line of who is served, [`put_health`] one of the pool's health. Threads, streams and clients are those of `tp_crowd`.
#![tactic(auto)]

mod census;
mod health;
mod locked;
mod order;
mod patience;

pub use census::{CENSUS, put_census};
pub use health::{HEALTH, Health, put_health};
pub use locked::{Alarm, HubLock, LockedDesk};
pub use patience::{Patience, Waiting};
pub use tp_hub::Start;
