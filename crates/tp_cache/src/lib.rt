//! A disk that keeps changed metadata blocks in memory until it is flushed.
//!
//! `NodeCache` meets the contract of `Disk` as if each write were done at once. Whatever a stop leaves of the disk under it, now or
//! at a moment of any call, a stop may leave of it (`stops_of_a_cache`).
#![tactic(auto)]

mod cache;
mod clean;
mod holding;
mod laws;
mod life;
mod noting;
mod overlay;
mod past;
mod places;
mod reading;
mod step;
mod table;
mod through;
mod trace;
mod writing_out;

pub use cache::NodeCache;
pub use laws::stops_of_a_cache;
pub use life::{Life, Start};
pub use past::Past;
pub use places::{Places, ReadPlaces};
pub use reading::ReadCache;

// bytes of a metadata block, and sectors
const BLOCK: usize = 4096;

const SECTOR: usize = 512;
