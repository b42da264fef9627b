//! The image that a crash leaves of a disk.

use std::alloc::{AllocError, Global};
use tp_disk::{Disk, MemDisk};
use tp_script::CrashImage;

/// Superblocks are in the sectors before this one.
const AFTER_SUPERBLOCKS: u64 = 16;

/// Picks the newest of a sector's values.
const NEWEST: u64 = u64::MAX;

/// Returns a number from 0 to 2 for a sector.
fn mixed(seed: u64, sector: u64) -> u64 {
    let mixed = (sector ^ 0x5bd1_e995).wrapping_mul(6_364_136_223_846_793_005);
    (mixed.wrapping_mul(seed) >> 40) % 3
}

fn mixed_or_newest(seed: Option<u64>, sector: u64) -> u64 {
    match seed {
        Some(seed) => mixed(seed, sector),
        None => NEWEST,
    }
}

fn newest_if(is_newest: bool) -> u64 {
    if is_newest { NEWEST } else { 0 }
}

/// Returns which of a sector's values a crash leaves, counted from the oldest.
pub(crate) fn pick(image: CrashImage, sector: u64) -> u64 {
    let is_superblock = sector < AFTER_SUPERBLOCKS;
    match image {
        CrashImage::Oldest => 0,
        CrashImage::Newest => NEWEST,
        CrashImage::Second => 1,
        CrashImage::InTurn => newest_if(sector % 2 == 0),
        CrashImage::NewestSuperblocks => newest_if(is_superblock),
        CrashImage::OldestSuperblocks => newest_if(!is_superblock),
        CrashImage::NewestFrom(first) => newest_if(sector >= first),
        CrashImage::Mixed(seed) => mixed(seed, sector),
        CrashImage::MixedApart(superblocks, others) => {
            mixed_or_newest(if is_superblock { superblocks } else { others }, sector)
        }
    }
}

/// Returns the disk that a crash leaves.
pub(crate) fn left_by_crash(
    alloc: Global,
    disk: &MemDisk,
    image: CrashImage,
) -> Result<MemDisk, AllocError> {
    if let CrashImage::Newest = image {
        return disk.stop(alloc, &[]);
    }
    let mut picks = Vec::with_capacity(alloc, usize::try_from(disk.sectors()).unwrap_or(0))?;
    for sector in 0..disk.sectors() {
        picks.push(pick(image, sector))?;
    }
    disk.stop(alloc, &picks)
}
