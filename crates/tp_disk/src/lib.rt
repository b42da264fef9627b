//! Disks behind a volatile write cache: the contract, a disk in memory, and one over a file.
//!
//! `Disk` is what a store needs of a disk. Its contract says what each call makes of a state that only contracts
//! see: for each sector the value that was kept by the last flush and those written since, any one of which a stop
//! may leave. `MemDisk` meets it by proof, can be stopped and made to fail, and tells how often a sector was read and
//! written. `FileDisk` meets it as far as the system does. `zeros` are what is written where sectors are to read zero.
#![tactic(auto)]

mod blank;
mod calls;
mod disk;
mod file;
mod image_file;
mod memory;
mod opening;
mod refused;
mod shadow;
mod shared;
mod syncs;
mod tally;
mod trouble;
mod watch;

pub use blank::zeros;
pub use disk::{Disk, Fault};
pub use file::FileDisk;
pub use image_file::ImageFile;
pub use memory::{MemDisk, picks_are_stops};
pub use opening::{LockedFile, OpenError, OpenStep};
pub use shared::{SharedDisk, SharedReader};
pub use trouble::{DiskCall, TellsTrouble, Trouble};
