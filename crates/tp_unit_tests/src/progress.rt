use std::alloc::Global;
use std::io::{self, Write};
use std::sync::atomic::{AtomicU64, Ordering};
use std::test::Fail;
use std::time::{Clock, Duration};
use tp_disk::{Disk, Fault, MemDisk};
use tp_progress::{Followed, Teller};

/// A clock that is a second later each time that it is asked.
#[derive(Drop)]
struct Seconds {
    asked: AtomicU64,
}

impl Clock for Seconds {
    fn monotonic(&self) -> io::Result<Duration> {
        Ok(Duration::from_secs(self.asked.fetch_add(1, Ordering::Relaxed)))
    }

    fn since_1970(&self) -> io::Result<Duration> {
        Ok(Duration::from_secs(0))
    }
}

/// Counts the lines and the bytes that are written.
#[derive(Clone, Copy, Drop)]
struct Counter<'c> {
    lines: &'c AtomicU64,
    bytes: &'c AtomicU64,
}

impl Write for Counter<'_> {
    fn write(&mut self, text: &[u8]) -> io::Result<usize> {
        for byte in text {
            if *byte == b'\n' {
                self.lines.fetch_add(1, Ordering::Relaxed);
            }
        }
        self.bytes.fetch_add(text.len() as u64, Ordering::Relaxed);
        Ok(text.len())
    }

    fn flush(&mut self) -> io::Result<()> {
        Ok(())
    }
}

/// Reads a disk ten times, and writes it as often.
fn read_and_write<D: Disk>(disk: &mut D) -> Result<(), Fault> {
    let mut bytes = [7; 512];
    for _ in 0..10 {
        if disk.sectors() < 1 {
            return Err(Fault);
        }
        disk.read(0, &mut bytes)?;
        disk.write(0, &bytes)?;
    }
    Ok(())
}

/// What reading and writing a disk answers, and what is written while a second goes by with each call of it: how many lines, and how many bytes.
fn told_of(disk: MemDisk, is_read: bool) -> (Result<(), Fault>, (u64, u64)) {
    let clock = Seconds {
        asked: AtomicU64::new(0),
    };
    let (lines, bytes) = (AtomicU64::new(0), AtomicU64::new(0));
    let counter = Counter {
        lines: &lines,
        bytes: &bytes,
    };
    let teller = Teller::new(&clock, counter, is_read);
    let mut disk = Followed::new(disk, teller);
    let done = read_and_write(&mut disk);
    let told = (lines.load(Ordering::Relaxed), bytes.load(Ordering::Relaxed));
    (done, told)
}

/// What is written so, of a disk in memory.
fn told(alloc: Global, is_read: bool) -> Result<(u64, u64), Fail> {
    let (done, told) = told_of(MemDisk::new(alloc, 8)?, is_read);
    done?;
    Ok(told)
}

// In seconds 1 to 8, 10, 12, 15 and 18, and never where nobody reads.
#[test]
fn long_work_is_told_of(rt: HostRuntime) -> Result<(), Fail> {
    let told = [told(rt.alloc(), true)?, told(rt.alloc(), false)?];
    assert_eq!(rt; told, [(12, 12 * 53 + 4), (0, 0)]);
    Ok(())
}
