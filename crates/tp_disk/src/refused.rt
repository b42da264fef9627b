//! Shared reads of a file that the system refused.

use crate::disk::SECTOR;
use std::alloc::Global;
use std::io;
use std::sync::Mutex;

/// The most refused reads that are remembered: a server has this many clients, each with one read at a
/// time.
const MOST_REMEMBERED: usize = 64;

/// A read that the system refused.
#[derive(Clone, Copy)]
struct RefusedRead {
    /// The first sector.
    at: u64,
    /// The length in bytes.
    length: usize,
    error: io::Error,
}

impl RefusedRead {
    /// Whether the read has a byte in common with `length` bytes from sector `at` on.
    fn overlaps(&self, at: u64, length: usize) -> bool {
        let end = at.saturating_add(length as u64 / SECTOR);
        let own_end = self.at.saturating_add(self.length as u64 / SECTOR);
        self.at < end && at < own_end
    }
}

/// Shared reads that the system refused, until each is requested again.
///
/// A failing device may take a minute to refuse a read. The caller of a refused shared read requests
/// the read again, then with exclusive access to the disk: all other clients would wait for a second
/// call of the system, which is likely to fail too.
#[derive(Drop)]
pub(crate) struct RefusedReads {
    reads: Mutex<Vec<RefusedRead>>,
}

impl RefusedReads {
    /// No read was refused.
    pub(crate) fn none(alloc: Global) -> RefusedReads {
        RefusedReads {
            reads: Mutex::new(Vec::new(alloc)),
        }
    }

    /// Remembers a read that the system refused. The oldest one is forgotten if there are
    /// `MOST_REMEMBERED`, and this one if memory is refused or another thread is in this call: the
    /// system is then asked a second time.
    pub(crate) fn note(&self, at: u64, length: usize, error: io::Error) {
        if let Some(mut reads) = self.reads.try_lock() {
            if reads.len() >= MOST_REMEMBERED {
                reads.remove(0);
            }
            _ = reads.push(RefusedRead { at, length, error });
        }
    }

    /// Returns why the system refused the read of these bytes, once for each time that it did.
    pub(crate) fn take(&mut self, at: u64, length: usize) -> Option<io::Error> {
        let reads = self.reads.get_mut();
        let index = reads
            .iter()
            .position(|read| read.at == at && read.length == length)?;
        Some(reads.swap_remove(index).error)
    }

    /// Forgets the reads of bytes that a write replaces.
    pub(crate) fn forget(&mut self, at: u64, length: usize) {
        let reads = self.reads.get_mut();
        reads.retain(|read| !read.overlaps(at, length));
    }
}
