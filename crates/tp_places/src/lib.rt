//! Places, which are socket files and TCP addresses: they are listened at and connected to, and a server is asked at one by lines.
#![tactic(auto)]

mod asker;
mod groups;
mod paging;
mod places;
mod rights;

pub use asker::ask_place;
pub use paging::delta_at;
pub use places::{NoDoor, open_door};
pub use rights::{Rights, rights_of};
