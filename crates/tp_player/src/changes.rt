//! Checksums of the images that a crash may leave. They are those of the sectors that were written:
//! most sectors never are.

use crate::crash::pick;
use std::alloc::{AllocError, Global};
use tp_disk::{Disk, MemDisk, SharedDisk};
use tp_script::{CrashImage, SECTOR};

/// A sector that was written.
#[derive(Drop)]
pub(crate) struct Changed {
    pub sector: u64,
    /// The checksum of its first value.
    first: u64,
    /// The checksums of the values that a crash may leave, the oldest first.
    values: Vec<u64>,
}

impl Changed {
    /// Returns the checksum of the value that a crash leaves.
    fn left(&self, image: CrashImage) -> u64 {
        let last = self.values.len().saturating_sub(1);
        let place = usize::try_from(pick(image, self.sector)).unwrap_or(last);
        self.values
            .get(place.min(last))
            .copied()
            .unwrap_or(self.first)
    }

    /// From now on a crash leaves the newest value.
    fn flush(&mut self) {
        if self.values.len() > 1 {
            let last = self.values.len() - 1;
            self.values.swap(0, last);
            self.values.truncate(1);
        }
    }
}

/// The sectors of a disk that were written since it was made.
#[derive(Drop)]
pub(crate) struct Changes {
    alloc: Global,
    /// The checksum of the disk as it was made.
    first: u64,
    /// In the order of their numbers.
    changed: Vec<Changed>,
    /// Whether there was memory for all of them.
    are_all: bool,
    /// Whether checksums are made. They take time.
    has_sums: bool,
}

fn mix(sum: u64, word: &[u8]) -> u64 {
    let mut bytes = [0; 8];
    if word.len() == 8 {
        bytes.copy_from_slice(word);
    }
    let sum = (sum ^ u64::from_le_bytes(bytes)).wrapping_mul(0x9e37_79b9_7f4a_7c15);
    sum ^ sum >> 29
}

/// Returns the checksum of a value of a sector.
fn checksum_of(sector: u64, value: &[u8]) -> u64 {
    let mut sum = sector;
    for word in value.chunks_exact(8) {
        sum = mix(sum, word);
    }
    sum
}

/// Returns the checksum of the value of a sector of a disk.
fn checksum_at(disk: &MemDisk, sector: u64) -> u64 {
    let mut value = [0; SECTOR];
    if sector < disk.sectors() && disk.read_shared(sector, &mut value) {
        checksum_of(sector, &value)
    } else {
        0
    }
}

impl Changes {
    /// Returns the changes of a new disk with this checksum: none.
    pub(crate) fn none(alloc: Global, first: u64) -> Changes {
        Changes {
            alloc,
            first,
            changed: Vec::new(alloc),
            are_all: true,
            has_sums: true,
        }
    }

    /// From now on makes no checksums.
    pub(crate) fn end_sums(&mut self) {
        self.has_sums = false;
    }

    /// Forgets and returns the sectors that were written.
    pub(crate) fn forget(&mut self) -> Vec<Changed> {
        std::mem::replace(&mut self.changed, Vec::new(self.alloc))
    }

    /// Returns the place of a sector among those that changed, where its first value is noted if it
    /// is not there yet.
    fn place_of(&mut self, disk: &MemDisk, sector: u64) -> Result<usize, AllocError> {
        let found = self
            .changed
            .binary_search_by_key(&sector, |changed| changed.sector);
        let place = match found {
            Ok(place) => return Ok(place),
            Err(place) => place,
        };
        let first = if self.has_sums {
            checksum_at(disk, sector)
        } else {
            0
        };
        let changed = Changed {
            sector,
            first,
            values: Vec::from_slice(self.alloc, &[first])?,
        };
        self.changed.insert(place, changed)?;
        Ok(place)
    }

    /// Notes a value of a sector.
    fn note(&mut self, disk: &MemDisk, sector: u64, value: &[u8]) -> Result<(), AllocError> {
        let place = self.place_of(disk, sector)?;
        if !self.has_sums {
            return Ok(());
        }
        if let Some(changed) = self.changed.get_mut(place) {
            changed.values.push(checksum_of(sector, value))?;
        }
        Ok(())
    }

    /// Notes a write before it is made.
    pub(crate) fn write(&mut self, disk: &MemDisk, at: u64, bytes: &[u8]) {
        let mut sector = at;
        for value in bytes.chunks_exact(SECTOR) {
            self.are_all = self.are_all && self.note(disk, sector, value).is_ok();
            sector = sector.saturating_add(1);
        }
    }

    /// Notes a flush that succeeded.
    pub(crate) fn flush(&mut self) {
        for changed in self.changed.iter_mut() {
            changed.flush();
        }
    }

    /// Returns the checksum of the image that a crash leaves.
    pub(crate) fn checksum(&self, image: CrashImage) -> Result<u64, AllocError> {
        if !self.are_all {
            return Err(AllocError);
        }
        let mut sum = self.first;
        for changed in &self.changed {
            sum = sum
                .wrapping_add(changed.left(image))
                .wrapping_sub(changed.first);
        }
        Ok(sum)
    }
}
