//! Who holds which volume: a row with a volume, and how many blocks it has, once for each session that holds it.
//!
//! The plain pool counts for each volume how many sessions hold it. The pool keeps the row, and so does whatever stands in for one.
#![tactic(auto)]

mod holders;

pub use holders::{Holder, Holders, MOST_HOLDERS, blocks_held, is_held, release};
