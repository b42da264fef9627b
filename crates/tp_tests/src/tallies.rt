//! A disk that counts its writes, its flushes and its syncs ahead.

use std::sync::atomic::{AtomicU64, Ordering};
use tp_disk::{Disk, Fault, SharedDisk};

/// A disk, and how often it was written to and flushed.
#[derive(Drop)]
pub(crate) struct TalliedDisk<D: Disk> {
    disk: D,
    writes: u64,
    flushes: u64,
    syncs: AtomicU64,
}

impl<D: Disk> TalliedDisk<D> {
    pub(crate) fn new(disk: D) -> TalliedDisk<D> {
        TalliedDisk {
            disk,
            writes: 0,
            flushes: 0,
            syncs: AtomicU64::new(0),
        }
    }

    pub(crate) fn into_inner(self) -> D {
        let TalliedDisk {
            disk,
            writes: _,
            flushes: _,
            syncs: _,
        } = self;
        disk
    }

    /// How often it was written to so far, how often it was flushed, and how many syncs ahead it had that are to bring whatever was written.
    pub(crate) fn work(&self) -> [u64; 3] {
        [self.writes, self.flushes, self.syncs.load(Ordering::SeqCst)]
    }
}

impl<D: Disk> Disk for TalliedDisk<D> {
    ghost state = { λ tallied. D.state tallied.disk };

    ghost well_formed = { λ tallied. D.well_formed tallied.disk };

    fn sectors(&self) -> u64 {
        self.disk.sectors()
    }

    fn read(&mut self, at: u64, out: &mut [u8]) -> Result<(), Fault> {
        self.disk.read(at, out)
    }

    fn write(&mut self, at: u64, bytes: &[u8]) -> Result<(), Fault> {
        self.writes = self.writes.wrapping_add(1);
        self.disk.write(at, bytes)
    }

    fn flush(&mut self) -> Result<(), Fault> {
        self.flushes = self.flushes.wrapping_add(1);
        self.disk.flush()
    }
}

impl<D: SharedDisk> SharedDisk for TalliedDisk<D> {
    fn read_shared(&self, at: u64, out: &mut [u8]) -> bool {
        self.disk.read_shared(at, out)
    }

    fn sync_ahead(&self, least: u64) {
        if least == 0 {
            self.syncs.fetch_add(1, Ordering::SeqCst);
        }
        self.disk.sync_ahead(least);
    }
}
