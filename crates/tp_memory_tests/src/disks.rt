//! What a disk had, and whether it has the same now.

use std::alloc::Global;
use tp_disk::{Disk, MemDisk, SharedDisk};

/// What a disk had: its sectors, and how often they were written, all together.
#[derive(Drop)]
pub(crate) struct Before {
    disk: MemDisk,
    writes: u64,
}

/// What a disk has. None where there is no memory for it.
pub(crate) fn noted(alloc: Global, disk: &MemDisk) -> Option<Before> {
    match disk.stop(alloc, &[]) {
        Ok(same) => Some(Before {
            disk: same,
            writes: writes_of(disk),
        }),
        Err(_) => None,
    }
}

/// How often the sectors of a disk were written, all together.
fn writes_of(disk: &MemDisk) -> u64 {
    let mut writes = 0u64;
    for at in 0..disk.sectors() {
        writes = writes.saturating_add(disk.writes(at));
    }
    writes
}

/// Whether a sector of two disks is the same.
fn is_same_at(disk: &MemDisk, other: &MemDisk, at: u64) -> bool {
    if at >= disk.sectors() || at >= other.sectors() {
        return false;
    }
    let (mut sector, mut other_sector) = ([0u8; 512], [1u8; 512]);
    disk.read_shared(at, &mut sector)
        && other.read_shared(at, &mut other_sector)
        && sector == other_sector
}

impl Before {
    /// Whether a disk has all that it had, and was not written since.
    pub(crate) fn is_kept(&self, disk: &MemDisk) -> bool {
        self.disk.sectors() == disk.sectors()
            && !self.is_written(disk)
            && (0..disk.sectors()).all(|at| is_same_at(&self.disk, disk, at))
    }

    /// Whether the disk was written since.
    pub(crate) fn is_written(&self, disk: &MemDisk) -> bool {
        writes_of(disk) != self.writes
    }
}
