//! Clients that send a text at once.

ghost use Rattle.std.specs.Prelude.{◌≡◌, ◌<◌, length};
ghost use Rattle.tp_hub.specs.Streams.{GivesSome};

use std::sync::atomic::{AtomicU64, Ordering};
use tp_crowd::Alarm;
use tp_hub::{Log, Made, Put, Received, Stream};

/// What became of a client: how often it was read from, how many bytes it was written and in how many parts that are not what is wanted, and how often it was
/// flushed.
#[derive(Drop)]
pub(crate) struct Seen {
    reads: AtomicU64,
    bytes: AtomicU64,
    others: AtomicU64,
    flushes: AtomicU64,
}

impl Seen {
    pub(crate) fn nothing() -> Seen {
        Seen {
            reads: AtomicU64::new(0),
            bytes: AtomicU64::new(0),
            others: AtomicU64::new(0),
            flushes: AtomicU64::new(0),
        }
    }

    /// Whether nothing was read from it or written to it.
    pub(crate) fn is_untouched(&self) -> bool {
        self.reads.load(Ordering::SeqCst) == 0 && self.bytes.load(Ordering::SeqCst) == 0
    }

    /// Whether it was written all that is wanted, so many bytes, and nothing else.
    pub(crate) fn is_answered(&self, wanted: usize) -> bool {
        self.bytes.load(Ordering::SeqCst) == wanted as u64
            && self.others.load(Ordering::SeqCst) == 0
    }

    /// In how many parts it was answered, each of which was flushed.
    pub(crate) fn flushes(&self) -> u64 {
        self.flushes.load(Ordering::SeqCst)
    }
}

/// An alarm that nobody hears.
pub(crate) struct Silence;

impl<V> Alarm<V> for Silence {
    type Cause = ();

    fn cause(&self, _pool: &V) {}

    fn pool_failed(&self, _cause: ()) {}
}

/// A client that gives all its text in one read of it, and then ends.
#[derive(Drop)]
pub(crate) struct Guest<'a> {
    log: Log,
    has_given: bool,
    text: &'a [u8],
    /// What it is to be written, and how many bytes it was.
    wanted: &'a [u8],
    at: usize,
    seen: &'a Seen,
}

impl<'a> Guest<'a> {
    pub(crate) fn new(text: &'a [u8], wanted: &'a [u8], seen: &'a Seen) -> Guest<'a> {
        Guest {
            log: Log::new(),
            has_given: false,
            text,
            wanted,
            at: 0,
            seen,
        }
    }

    /// What its next read comes to.
    fn give(&mut self, buffer: &mut [u8]) -> Received
        requires { 0 < length buffer.old }
        ensures some { GivesSome result (length buffer.new) }
        ensures len { length buffer.new ≡ length buffer.old }
        ensures log { self.new.log.calls ≡ self.old.log.calls }
    {
        self.seen.reads.fetch_add(1, Ordering::SeqCst);
        if self.has_given {
            return Received::End;
        }
        self.has_given = true;
        put_front(buffer, self.text)
    }

    /// Takes bytes, and notes whether they are what is wanted next.
    fn take(&mut self, bytes: &[u8])
        ensures log { self.new.log.calls ≡ self.old.log.calls }
    {
        let rest = self.wanted.get(self.at..).unwrap_or(&[]);
        let is_other = !rest.starts_with(bytes);
        self.at = self.at.saturating_add(bytes.len());
        self.seen
            .others
            .fetch_add(is_other as u64, Ordering::SeqCst);
        self.seen
            .bytes
            .fetch_add(bytes.len() as u64, Ordering::SeqCst);
    }
}

/// Copies a part to the front of a buffer, as far as it has room.
fn put_front(buffer: &mut [u8], part: &[u8]) -> Received
    requires { 0 < length buffer.old }
    ensures some { GivesSome result (length buffer.new) }
    ensures len { length buffer.new ≡ length buffer.old }
{
    let count = buffer.len().min(part.len());
    if count == 0 {
        return Received::End;
    }
    buffer[..count].copy_from_slice(&part[..count]);
    Received::Got(count)
}

impl<'a> Stream for Guest<'a> {
    ghost calls = { λ s. s.log.calls };

    fn receive(&mut self, buffer: &mut Vec<u8>) -> Received {
        let received = self.give(buffer.as_mut_slice());
        self.log.note(&Made::Read(received), buffer.as_slice());
        received
    }

    fn send(&mut self, bytes: &[u8]) -> Put {
        self.take(bytes);
        let put = Put::Wrote(bytes.len());
        self.log.note(&Made::Written(put), bytes);
        put
    }

    fn flush(&mut self) -> bool {
        self.seen.flushes.fetch_add(1, Ordering::SeqCst);
        self.log.note(&Made::Flushed(true), &[]);
        true
    }
}
