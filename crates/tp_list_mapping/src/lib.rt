//! A mapping as a list in memory: a second implementation of `Mapping`, with which tests compare the one on trees.
#![tactic(auto)]

mod device;
mod list;
mod slots;

pub use list::ListMapping;
