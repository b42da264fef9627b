//! The calls that a disk makes of its file, and their order.

use std::alloc::Global;
use std::io;
use std::os::unix::fs::FileExt;
use std::sync::Mutex;
use tp_disk::{Disk, Fault, FileDisk, ImageFile, SharedDisk};

/// A call of a file.
#[derive(Clone, Copy, Debug, PartialEq, Eq)]
enum FileCall {
    Write { offset: u64, len: usize },
    SyncAll,
    SyncData,
    DropCached,
}

/// A file that reads zero and records its other calls.
#[derive(Drop)]
struct RecordedFile<'a> {
    calls: &'a Mutex<Vec<FileCall>>,
    /// Whether `sync_data` fails.
    is_failing: bool,
    /// Whether all of it is a hole, as far as it tells.
    is_hole: bool,
}

impl RecordedFile<'_> {
    fn record(&self, call: FileCall) {
        if let Some(mut calls) = self.calls.try_lock() {
            _ = calls.push(call);
        }
    }
}

impl FileExt for RecordedFile<'_> {
    fn read_at(&self, buf: &mut [u8], _offset: u64) -> io::Result<usize> {
        buf.fill(0);
        Ok(buf.len())
    }

    fn write_at(&self, buf: &[u8], offset: u64) -> io::Result<usize> {
        let len = buf.len();
        self.record(FileCall::Write { offset, len });
        Ok(buf.len())
    }
}

impl ImageFile for RecordedFile<'_> {
    fn sync_all(&self) -> io::Result<()> {
        self.record(FileCall::SyncAll);
        Ok(())
    }

    fn sync_data(&self) -> io::Result<()> {
        self.record(FileCall::SyncData);
        if self.is_failing {
            return Err(io::Error::from_raw_os_error(5));
        }
        Ok(())
    }

    fn drop_cached(&self) -> io::Result<()> {
        self.record(FileCall::DropCached);
        Ok(())
    }

    fn is_hole(&self, _from: u64, _len: u64) -> bool {
        self.is_hole
    }
}

/// The first calls that were recorded.
fn first_calls(calls: &Mutex<Vec<FileCall>>) -> [Option<FileCall>; 8] {
    let mut first = [None; 8];
    if let Some(calls) = calls.try_lock() {
        for at in 0..8 {
            first[at] = calls.get(at).copied();
        }
    }
    first
}

/// Writes and flushes, twice; the second time a sync is made ahead of the flush. Each flush that
/// follows another one makes no sync.
fn write_and_flush<D: SharedDisk>(disk: &mut D) -> Result<(), Fault> {
    if disk.sectors() < 2 {
        return Err(Fault);
    }
    disk.write(0, &[1; 512])?;
    disk.flush()?;
    disk.flush()?;
    disk.write(1, &[2; 512])?;
    disk.sync_ahead(512);
    disk.flush()?;
    disk.flush()
}

/// The calls of a file of 2 sectors, and what [`write_and_flush`] returned.
fn calls_of(alloc: Global, is_failing: bool) -> (bool, [Option<FileCall>; 8]) {
    let calls = Mutex::new(Vec::new(alloc));
    let file = RecordedFile {
        calls: &calls,
        is_failing,
        is_hole: false,
    };
    let is_done = match FileDisk::over(alloc, file, 2) {
        Ok(mut disk) => write_and_flush(&mut disk).is_ok(),
        Err(_) => false,
    };
    (is_done, first_calls(&calls))
}

const OPENED: [Option<FileCall>; 2] = [Some(FileCall::SyncAll), Some(FileCall::DropCached)];

/// Opening syncs the file before it drops its cached pages. Each flush is a sync after the last write,
/// and there is no other sync. A flush fails if its sync fails.
#[test]
fn a_flush_is_a_sync_after_the_last_write(rt: HostRuntime) {
    let told = [calls_of(rt.alloc(), false), calls_of(rt.alloc(), true)];
    let sync = Some(FileCall::SyncData);
    let one = Some(FileCall::Write {
        offset: 0,
        len: 512,
    });
    let other = Some(FileCall::Write {
        offset: 512,
        len: 512,
    });
    let [first, second] = OPENED;
    assert_eq!(rt;
        told,
        [
            (true, [first, second, one, sync, other, sync, None, None]),
            (false, [first, second, one, sync, None, None, None, None]),
        ]
    );
}

/// Writes 16 KiB of which the second page has a byte of data, and then 8 KiB of zeros behind it.
fn write_zeros<D: Disk>(disk: &mut D) -> Result<(), Fault> {
    if disk.sectors() < 48 {
        return Err(Fault);
    }
    let mut bytes = [0; 16_384];
    bytes[5000] = 1;
    disk.write(0, &bytes)?;
    disk.write(32, &[0; 8192])
}

/// The calls of a file of 48 sectors that [`write_zeros`] makes.
fn zeros_of(alloc: Global, is_hole: bool) -> [Option<FileCall>; 8] {
    let calls = Mutex::new(Vec::new(alloc));
    let file = RecordedFile {
        calls: &calls,
        is_failing: false,
        is_hole,
    };
    if let Ok(mut disk) = FileDisk::over(alloc, file, 48) {
        _ = write_zeros(&mut disk);
    }
    first_calls(&calls)
}

/// Pages of zeros around data are not written where the file has a hole, and are written elsewhere.
#[test]
fn a_hole_stays_where_zeros_are_written(rt: HostRuntime) {
    let told = [zeros_of(rt.alloc(), true), zeros_of(rt.alloc(), false)];
    let [first, second] = OPENED;
    let write = |offset, len| Some(FileCall::Write { offset, len });
    assert_eq!(rt;
        told,
        [
            [
                first,
                second,
                write(4096, 4096),
                None,
                None,
                None,
                None,
                None
            ],
            [
                first,
                second,
                write(0, 16_384),
                write(16_384, 8192),
                None,
                None,
                None,
                None
            ],
        ]
    );
}
