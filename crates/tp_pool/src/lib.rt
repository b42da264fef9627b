//! The pool over any metadata.
//!
//! `Pool` has a disk, the metadata of a pool that stand on it, its data blocks, and who holds which volume. What each call does is that
//! of the plain pool.
#![tactic(auto)]

mod laws;
mod managed;
mod messages;
mod midway;
mod modes;
mod opening;
mod pool;
mod reading;
mod room;
mod sectors;
mod shared;
mod status;
mod together;
mod trimming;
mod volumes;
mod walking;
mod writing;
mod zeroing;

pub use laws::{
    images_stand_for_one_pool, images_use_bounded_metadata, lives_are_runs, opened_pools_go_on,
    pool_calls_are_calls, room_lasts_to_the_bound, stops_leave_pools,
};
pub use pool::{Besides, Pool};
