//! The standard streams.

use libc::net::{POLLOUT, poll};
use libc::types::pollfd;
use std::fs::File;
use std::io::{self, ErrorKind, Write};
use std::os::fd::AsRawFd;
use std::rt::Files;

/// The descriptors of standard input, output and error are 0 to this one.
const LAST_STREAM: i32 = 2;

/// Which standard streams are terminals.
#[derive(Clone, Copy, Debug, PartialEq, Eq)]
pub struct Terminals {
    pub input: bool,
    pub errors: bool,
}

/// What stands in the place of standard streams that were closed.
pub type Stand = [Option<File>; 3];

/// Opens `/dev/null` in the place of each standard stream that is closed, which has to be done before any other file is opened: that one would get the
/// stream's descriptor, and what the program tells would be written over it. What is answered is to be kept as long as the program runs.
///
/// It is opened to read, also for an output: then what is to be told is refused, and not lost without a word.
pub fn stand_in<F: Files<File = File>>(files: &F) -> io::Result<Stand> {
    let mut stand = [None, None, None];
    for place in &mut stand {
        let file = File::open(files, "/dev/null")?;
        if file.as_raw_fd() > LAST_STREAM {
            return Ok(stand);
        }
        *place = Some(file);
    }
    Ok(stand)
}

/// The most bytes of one write: a pipe that takes any takes so many at once.
const MOST: usize = 4096;

/// A stream whose reader may stop reading: a write waits for it so many milliseconds at most, and is then given up. Behind that the next ones are given up at
/// once, until the reader has read.
#[derive(Drop)]
pub struct Timed<W: Write + AsRawFd + Drop> {
    inner: W,
    patience: i32,
    is_stuck: bool,
}

impl<W: Write + AsRawFd + Drop> Timed<W> {
    ghost use Rattle.std.specs.Prelude.{◌≡◌, not};

    /// Of a stream whose reader reads.
    pub fn new(inner: W, patience: u16) -> Timed<W>
        ensures { result.inner ≡ inner }
    {
        Timed {
            inner,
            patience: i32::from(patience),
            is_stuck: false,
        }
    }

    /// Whether the system takes some bytes at once, or within the time that is waited for that.
    fn is_ready(&mut self) -> bool
        ensures told { result ≡ not self.new.is_stuck }
        ensures same { self.new.inner ≡ self.old.inner }
        ensures patience { self.new.patience ≡ self.old.patience }
    {
        let patience = if self.is_stuck { 0 } else { self.patience };
        let mut asked = [pollfd {
            fd: self.inner.as_raw_fd(),
            events: POLLOUT,
            revents: 0,
        }];
        self.is_stuck = poll(&mut asked, patience) == 0;
        !self.is_stuck
    }
}

impl<W: Write + AsRawFd + Drop> Write for Timed<W> {
    ghost contents = { λ timed. W.contents timed.inner };

    fn write(&mut self, bytes: &[u8]) -> io::Result<usize> {
        if !self.is_ready() {
            return Err(io::Error::from(ErrorKind::TimedOut));
        }
        let count = bytes.len().min(MOST);
        self.inner.write(&bytes[..count])
    }

    fn flush(&mut self) -> io::Result<()> {
        self.inner.flush()
    }
}
