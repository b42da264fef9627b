//! What a check reports of an image.

use std::alloc::Global;
use tp_check::check;
use tp_disk::MemDisk;

/// The number that a check reports of an image, or 0 if it is clean.
pub(crate) fn told_by_check(alloc: Global, disk: &mut MemDisk) -> u8 {
    match check(alloc, disk) {
        Ok(()) => 0,
        Err(error) => error.refusal().number(),
    }
}
