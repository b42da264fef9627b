//! A disk whose calls are told.

use crate::progress::Progress;
use tp_disk::{Disk, Fault, TellsTrouble, Trouble};

/// A disk, and who is told of each of its reads and writes behind it. It does what the disk does.
#[derive(Drop)]
pub struct Followed<D: Disk, P: Progress + Drop> {
    disk: D,
    progress: P,
}

impl<D: Disk, P: Progress + Drop> Followed<D, P> {
    ghost use Rattle.std.specs.Prelude.{◌≡◌};

    pub fn new(disk: D, progress: P) -> Followed<D, P>
        ensures { result.disk ≡ disk }
    {
        Followed { disk, progress }
    }

    /// The disk, of whose calls nobody is told any more.
    pub fn into_disk(self) -> D
        ensures { result ≡ self.disk }
    {
        let Followed { disk, progress: _ } = self;
        disk
    }
}

impl<D: Disk, P: Progress + Drop> Disk for Followed<D, P> {
    ghost state = { λ followed. D.state followed.disk };

    ghost well_formed = { λ followed. D.well_formed followed.disk };

    fn sectors(&self) -> u64 {
        self.disk.sectors()
    }

    fn read(&mut self, at: u64, out: &mut [u8]) -> Result<(), Fault> {
        let done = self.disk.read(at, out);
        self.progress.read(out.len());
        done
    }

    fn write(&mut self, at: u64, bytes: &[u8]) -> Result<(), Fault> {
        let done = self.disk.write(at, bytes);
        self.progress.written(bytes.len());
        done
    }

    fn flush(&mut self) -> Result<(), Fault> {
        self.disk.flush()
    }
}

impl<D: Disk + TellsTrouble, P: Progress + Drop> TellsTrouble for Followed<D, P> {
    fn trouble(&self) -> Option<Trouble> {
        self.disk.trouble()
    }
}
