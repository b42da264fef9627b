//! A TCP stream whose reads wait awake for a while.

ghost use Rattle.std.specs.Io.{ReadsAtMost};

use crate::ending::{bound_reads, discard, end_sending};
use std::io;
use std::io::{ErrorKind, Read, Write};
use std::net::TcpStream;
use std::time::{Clock, Duration};
use tp_lock::{Patience, Waiting};

/// So often a read that finds nothing is made again before its thread sleeps: some tens of microseconds, within which a client that waits for each answer
/// asks again.
const TRIES: u32 = 100;

/// At most so many reads sleep at once, behind one that waited awake in vain.
const LONGEST_PAUSE: u32 = 64;

/// A TCP stream whose reads wait awake for a while before they sleep: to be woken takes about as
/// long as such a client needs to ask again. After a read that waited awake in vain the next one
/// sleeps at once, after two in a row the next two, then 4, and so on.
///
/// A read that has slept for half a second fails with `WouldBlock`.
#[derive(Drop)]
pub(crate) struct Polled<'c> {
    stream: TcpStream,
    /// Whether a call of the stream fails where it would wait.
    is_nonblocking: bool,
    /// How many reads are still to sleep at once.
    asleep: u32,
    /// How many are to do so when the next one waits awake in vain.
    pause: u32,
    patience: &'c Patience,
}

impl<'c> Polled<'c> {
    /// A stream that may wait. What is written to it goes out at once, if the system permits that.
    pub(crate) fn new(stream: TcpStream, patience: &'c Patience) -> Polled<'c> {
        let _ = stream.set_nodelay(true);
        let _ = bound_reads(&stream);
        Polled {
            stream,
            is_nonblocking: false,
            asleep: 0,
            pause: 1,
            patience,
        }
    }

    /// Lets calls of the stream wait, or fail where they would.
    fn set_nonblocking(&mut self, is_nonblocking: bool) -> io::Result<()> {
        if self.is_nonblocking != is_nonblocking {
            self.stream.set_nonblocking(is_nonblocking)?;
            self.is_nonblocking = is_nonblocking;
        }
        Ok(())
    }

    /// Whether the peer has sent bytes that were not read. Calls of the stream wait then.
    pub(crate) fn has_more(&mut self) -> bool {
        let has_more = self.set_nonblocking(true).is_ok()
            && matches!(self.stream.peek(&mut [0]), Ok(1..));
        self.set_nonblocking(false).is_ok() && has_more
    }

    /// Another handle of the stream, if the system has one.
    pub(crate) fn another(&self) -> Option<TcpStream> {
        self.stream.try_clone().ok()
    }

    /// Tells the peer that nothing more is sent to it. False if the stream has failed.
    pub(crate) fn end_sending(&self) -> bool {
        end_sending(&self.stream)
    }

    /// Discards what the peer sends, as [`discard`] does. Does nothing if reads cannot be bounded in
    /// time.
    pub(crate) fn discard<C: Clock>(&mut self, clock: &C, limit: Duration) {
        if self.set_nonblocking(false).is_ok() && bound_reads(&self.stream) {
            discard(clock, &mut self.stream, limit);
        }
    }

    /// A wait awake, where the next read is to wait so.
    fn awake(&mut self) -> Option<Waiting<'c>> {
        if self.asleep > 0 {
            self.asleep -= 1;
            return None;
        }
        let waiting = self.patience.begin();
        if waiting.is_awake() {
            Some(waiting)
        } else {
            None
        }
    }

    /// Reads without sleeping. It would wait longer where nothing came in so many tries.
    fn read_awake(&mut self, mut waiting: Waiting<'_>, buffer: &mut [u8]) -> io::Result<usize>
        ensures { ReadsAtMost result buffer.new }
    {
        self.set_nonblocking(true)?;
        for turn in 0..TRIES {
            match self.stream.read(buffer) {
                Err(error) if error.kind() == ErrorKind::WouldBlock => {
                    if !waiting.goes_on() {
                        return Err(error);
                    }
                }
                other => {
                    if turn > 0 {
                        self.pause = 1;
                    }
                    return other;
                }
            }
        }
        Err(io::Error::from(ErrorKind::WouldBlock))
    }
}

impl Read for Polled<'_> {
    fn read(&mut self, buffer: &mut [u8]) -> io::Result<usize> {
        if let Some(waiting) = self.awake() {
            match self.read_awake(waiting, buffer) {
                Err(error) if error.kind() == ErrorKind::WouldBlock => {}
                other => return other,
            }
            self.asleep = self.pause;
            self.pause = self.pause.saturating_mul(2).min(LONGEST_PAUSE);
        }
        self.set_nonblocking(false)?;
        self.stream.read(buffer)
    }
}

impl Write for Polled<'_> {
    fn write(&mut self, bytes: &[u8]) -> io::Result<usize> {
        match self.stream.write(bytes) {
            Err(error) if error.kind() == ErrorKind::WouldBlock => {}
            other => return other,
        }
        self.set_nonblocking(false)?;
        self.stream.write(bytes)
    }

    fn flush(&mut self) -> io::Result<()> {
        self.stream.flush()
    }
}
