//! Disks that many may read at once.
ghost use Rattle.std.specs.Prelude.{◌≡◌, ◌/◌, ◌%◌, ◌+◌, ◌≤◌, length, IsTrue};
ghost use Rattle.tp_model.specs.Sectors.{bytes_at};
ghost use Rattle.tp_model.specs.Disk.{seen};
ghost use Rattle.tp_disk.specs.Shared.{for_reader};

use crate::shadow::{Shadow, Step};
use crate::{Disk, Fault};

/// A disk whose sectors many may look at at once, while nobody writes it.
pub trait SharedDisk: Disk {
    /// Reads whole sectors from sector `at` on until `out` is full: true where `out` has what `read` would give. False says nothing of the disk, and
    /// is no failure of it: `read` is to be asked then, which counts what fails. `out` may hold anything behind it.
    fn read_shared(&self, at: u64, out: &mut [u8]) -> bool
        requires whole { length out.old % 512 ≡ 0 }
        requires within { at + length out.old / 512 ≤ (Self.state self.now).size }
        ensures { IsTrue result → IsTrue (Self.state self.now).is_honest
            → out.new ≡ bytes_at (seen (Self.state self.now).cells) at (length out.old / 512) };

    /// Brings to the device what was written so far, where that is at least so many bytes, while others read, so that a `flush` behind it has less to wait
    /// for. It is no flush: nothing is promised of it, and what fails of it the next `flush` tells.
    fn sync_ahead(&self, least: u64);
}

/// A disk as one of those sees it who look at it at once. What cannot be looked at so, and each write and flush, is a `Fault`, of which the disk
/// itself knows nothing.
#[derive(Drop)]
pub struct SharedReader<'a, D: SharedDisk> {
    disk: &'a D,
    // What failed for this reader.
    shadow: Shadow,
}

impl<'a, D: SharedDisk> SharedReader<'a, D> {
    /// The disk, of which no call failed for this reader yet.
    pub fn new(disk: &'a D) -> SharedReader<'a, D>
        ensures { for_reader (D.state result.disk.now) result.shadow.state ≡ D.state disk.now }
    {
        SharedReader {
            disk,
            shadow: Shadow::new(),
        }
    }
}

impl<'a, D: SharedDisk> Disk for SharedReader<'a, D> {
    ghost use Rattle.tp_disk.specs.Shared.{for_reader};

    ghost state = { λ reader. for_reader (D.state reader.disk.now) reader.shadow.state };

    ghost well_formed = { λ reader. D.well_formed reader.disk.now };

    fn sectors(&self) -> u64 {
        self.disk.sectors()
    }

    fn read(&mut self, at: u64, out: &mut [u8]) -> Result<(), Fault> {
        let ok = self.disk.read_shared(at, out);
        self.shadow.note(&Step::NoChange { ok }, &[]);
        if ok { Ok(()) } else { Err(Fault) }
    }

    fn write(&mut self, _at: u64, _bytes: &[u8]) -> Result<(), Fault> {
        self.shadow.note(&Step::NoChange { ok: false }, &[]);
        Err(Fault)
    }

    fn flush(&mut self) -> Result<(), Fault> {
        self.shadow.note(&Step::Flush { ok: false }, &[]);
        Err(Fault)
    }
}
