//! What the system said of a call that failed a disk.

use crate::{FileDisk, ImageFile, MemDisk};
use std::fmt::{self, Display, Formatter};
use std::io;

/// A call of a disk, and from which sector on.
#[derive(Clone, Copy, Debug, PartialEq, Eq)]
pub enum DiskCall {
    Read { at: u64 },
    Write { at: u64 },
    Flush,
}

/// A call of a disk that the system refused, and what it said.
#[derive(Clone, Copy, Debug)]
pub struct Trouble {
    pub call: DiskCall,
    pub error: io::Error,
}

impl Display for DiskCall {
    fn fmt<W: fmt::Write>(&self, f: &mut Formatter<W>) -> fmt::Result {
        match self {
            DiskCall::Read { at } => write!(f, "a read at sector {at}"),
            DiskCall::Write { at } => write!(f, "a write at sector {at}"),
            DiskCall::Flush => f.write_str("a flush"),
        }
    }
}

impl Display for Trouble {
    fn fmt<W: fmt::Write>(&self, f: &mut Formatter<W>) -> fmt::Result {
        write!(f, "{} failed: {}", self.call, self.error)
    }
}

/// Notes what the system said, where it refused.
pub(crate) fn note_trouble(trouble: &mut Option<Trouble>, call: DiskCall, done: io::Result<()>) {
    if let Err(error) = done {
        *trouble = Some(Trouble { call, error });
    }
}

/// A disk that tells what the system said of the last call that failed.
pub trait TellsTrouble {
    fn trouble(&self) -> Option<Trouble>;
}

impl<F: ImageFile + Drop> TellsTrouble for FileDisk<F> {
    fn trouble(&self) -> Option<Trouble> {
        FileDisk::trouble(self)
    }
}

/// No system stands below it.
impl TellsTrouble for MemDisk {
    fn trouble(&self) -> Option<Trouble> {
        None
    }
}
