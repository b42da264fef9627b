//! The reference model of a pool, without a disk: what each call must return, and what a crash may leave.
//!
//! `tp_plain` decides why a call fails, and what it needs: its programs are proved to be the definitions.
#![tactic(auto)]

mod found;
mod history;
mod listings;
mod messages;
mod reference;
mod requests;
mod status;
mod volume;

pub use found::{Found, FoundVolume};
pub use history::{History, Step};
pub use reference::Reference;
pub use status::used_metadata_in;
pub use volume::Volume;
