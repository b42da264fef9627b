//! The disk of a script: a disk in memory that counts calls on metadata and on data, and fails some
//! of them.

use crate::changes::Changes;
use crate::crash::left_by_crash;
use std::alloc::{AllocError, Global};
use std::sync::atomic::{AtomicU64, Ordering};
use tp_disk::{Disk, Fault, MemDisk, SharedDisk};
use tp_script::{Buffer, CrashImage, SECTOR};

/// The number of calls of a disk. The first sector of a call decides whether it is one on metadata.
#[derive(Clone, Copy)]
pub(crate) struct Tally {
    pub metadata_reads: u64,
    pub metadata_writes: u64,
    pub data_reads: u64,
    pub data_writes: u64,
    pub flushes: u64,
}

impl Tally {
    pub(crate) const NONE: Tally = Tally {
        metadata_reads: 0,
        metadata_writes: 0,
        data_reads: 0,
        data_writes: 0,
        flushes: 0,
    };

    /// Returns the calls since an earlier tally.
    pub(crate) fn since(self, earlier: Tally) -> Tally {
        Tally {
            metadata_reads: self.metadata_reads.wrapping_sub(earlier.metadata_reads),
            metadata_writes: self.metadata_writes.wrapping_sub(earlier.metadata_writes),
            data_reads: self.data_reads.wrapping_sub(earlier.data_reads),
            data_writes: self.data_writes.wrapping_sub(earlier.data_writes),
            flushes: self.flushes.wrapping_sub(earlier.flushes),
        }
    }

    /// Adds the numbers as text.
    pub(crate) fn add_to(self, report: &mut Buffer) {
        report.add(b"metadata ");
        report.add_number(self.metadata_reads);
        report.add(b" read ");
        report.add_number(self.metadata_writes);
        report.add(b" written, data ");
        report.add_number(self.data_reads);
        report.add(b" read ");
        report.add_number(self.data_writes);
        report.add(b" written, ");
        report.add_number(self.flushes);
        report.add(b" flushes");
    }
}

/// A disk in memory, and the number of its calls.
#[derive(Drop)]
pub(crate) struct ScriptDisk {
    disk: MemDisk,
    changes: Changes,
    /// The first sector after the metadata.
    border: u64,
    tally: Tally,
    /// The calls that fail, by their numbers.
    first: AtomicU64,
    last: AtomicU64,
}

impl ScriptDisk {
    fn over(disk: MemDisk, changes: Changes) -> ScriptDisk {
        ScriptDisk {
            disk,
            changes,
            border: 0,
            tally: Tally::NONE,
            first: AtomicU64::new(0),
            last: AtomicU64::new(0),
        }
    }

    /// Returns a blank disk.
    pub(crate) fn new(alloc: Global, sectors: u64) -> Result<ScriptDisk, AllocError> {
        let disk = MemDisk::new(alloc, sectors)?;
        Ok(ScriptDisk::over(disk, Changes::none(alloc, 0)))
    }

    /// Returns the disk that a crash leaves.
    pub(crate) fn left(
        &self,
        alloc: Global,
        image: CrashImage,
    ) -> Result<Box<ScriptDisk>, AllocError> {
        let changes = Changes::none(alloc, self.checksum(image)?);
        let disk = left_by_crash(alloc, &self.disk, image)?;
        Ok(Box::new(alloc, ScriptDisk::over(disk, changes))?)
    }

    /// Writes the first sectors of another disk, as many as this one has.
    fn fill_from(&mut self, other: &ScriptDisk) -> Result<(), Fault> {
        for sector in 0..self.disk.sectors().min(other.disk.sectors()) {
            self.copy_sector(other, sector)?;
        }
        self.disk.flush()
    }

    /// Returns a disk of the first sectors of this one.
    pub(crate) fn truncated(
        &self,
        alloc: Global,
        sectors: u64,
    ) -> Result<Box<ScriptDisk>, AllocError> {
        let mut disk = ScriptDisk::new(alloc, sectors)?;
        match disk.fill_from(self) {
            Ok(()) => Ok(Box::new(alloc, disk)?),
            Err(_) => Err(AllocError),
        }
    }

    /// From now on there are no checksums of this disk, only the list of sectors that changed.
    pub(crate) fn end_sums(&mut self) {
        self.changes.end_sums();
    }

    /// Writes a sector of another disk.
    fn copy_sector(&mut self, other: &ScriptDisk, sector: u64) -> Result<(), Fault> {
        let mut bytes = [0; SECTOR];
        if sector >= self.disk.sectors() || sector >= other.disk.sectors() {
            return Err(Fault);
        }
        if !other.disk.read_shared(sector, &mut bytes) {
            return Err(Fault);
        }
        self.disk.write(sector, &bytes)
    }

    /// Takes back the changes since this disk was copied from another one, or since the last such
    /// call.
    pub(crate) fn restore(&mut self, other: &ScriptDisk) -> Result<(), Fault> {
        let sectors = self.changes.forget();
        for changed in &sectors {
            self.copy_sector(other, changed.sector)?;
        }
        self.disk.flush()
    }

    /// Returns the checksum of the disk that a crash leaves.
    pub(crate) fn checksum(&self, image: CrashImage) -> Result<u64, AllocError> {
        self.changes.checksum(image)
    }

    /// A pool whose metadata ends at this sector is opened or formatted.
    pub(crate) fn begin(&mut self, border: u64, failing: (u64, u64)) {
        self.border = border;
        self.tally = Tally::NONE;
        self.fail(failing.0, failing.1);
    }

    /// Returns how often a sector was written.
    pub(crate) fn writes(&self, sector: u64) -> u64 {
        self.disk.writes(sector)
    }

    pub(crate) fn tally(&self) -> Tally {
        self.tally
    }

    pub(crate) fn calls(&self) -> u64 {
        self.disk.calls()
    }

    /// From now on the calls from number `first` to `last` fail. The disk's first call ever has
    /// number 1.
    pub(crate) fn fail(&self, first: u64, last: u64) {
        self.first.store(first, Ordering::SeqCst);
        self.last.store(last, Ordering::SeqCst);
    }

    /// Returns the numbers of the first and the last call that fail.
    fn failing(&self) -> (u64, u64) {
        (
            self.first.load(Ordering::SeqCst),
            self.last.load(Ordering::SeqCst),
        )
    }
}

impl Disk for ScriptDisk {
    ghost use Rattle.tp_disk.specs.Memory.{mem_state};

    ghost state = { λ it. mem_state it.disk };

    ghost well_formed = { λ it. it.disk.well_formed };

    fn sectors(&self) -> u64 {
        self.disk.sectors()
    }

    fn read(&mut self, at: u64, out: &mut [u8]) -> Result<(), Fault> {
        if at < self.border {
            self.tally.metadata_reads = self.tally.metadata_reads.wrapping_add(1);
        } else {
            self.tally.data_reads = self.tally.data_reads.wrapping_add(1);
        }
        let (first, last) = self.failing();
        self.disk.fail(first, last);
        self.disk.read(at, out)
    }

    fn write(&mut self, at: u64, bytes: &[u8]) -> Result<(), Fault> {
        if at < self.border {
            self.tally.metadata_writes = self.tally.metadata_writes.wrapping_add(1);
        } else {
            self.tally.data_writes = self.tally.data_writes.wrapping_add(1);
        }
        let (first, last) = self.failing();
        self.disk.fail(first, last);
        self.changes.write(&self.disk, at, bytes);
        self.disk.write(at, bytes)
    }

    fn flush(&mut self) -> Result<(), Fault> {
        self.tally.flushes = self.tally.flushes.wrapping_add(1);
        let (first, last) = self.failing();
        self.disk.fail(first, last);
        let result = self.disk.flush();
        if result.is_ok() {
            self.changes.flush();
        }
        result
    }
}

impl SharedDisk for ScriptDisk {
    /// Shared reads are not counted.
    fn read_shared(&self, at: u64, out: &mut [u8]) -> bool {
        self.disk.read_shared(at, out)
    }

    /// There is no device.
    fn sync_ahead(&self, _least: u64) {}
}
