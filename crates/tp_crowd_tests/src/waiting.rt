//! A client that waits for another one.

ghost use Rattle.std.specs.Prelude.{◌≡◌, ◌<◌, ◌≤◌, length};
ghost use Rattle.tp_hub.specs.Streams.{GivesSome, TakesSome};

use std::net::SocketAddr;
use std::sync::atomic::{AtomicBool, AtomicU64, Ordering};
use std::{io, thread};
use tp_crowd::{Alarm, Chronicle, Visit, Visitor};
use tp_hub::{Log, Made, Put, Received, Stream};

/// What a client was written: how many bytes, and how many of them are the letter `a`; and whether it waited for another one in vain.
#[derive(Drop)]
pub(crate) struct Seen {
    bytes: AtomicU64,
    letters: AtomicU64,
    in_vain: AtomicBool,
    /// Of a chronicle: whether the server ends when the pool has failed.
    ends_on_failure: bool,
}

impl Seen {
    fn of(ends_on_failure: bool) -> Seen {
        Seen {
            bytes: AtomicU64::new(0),
            letters: AtomicU64::new(0),
            in_vain: AtomicBool::new(false),
            ends_on_failure,
        }
    }

    pub(crate) fn nothing() -> Seen {
        Seen::of(false)
    }

    /// A chronicle of a server that ends when the pool has failed.
    pub(crate) fn until_failed() -> Seen {
        Seen::of(true)
    }

    pub(crate) fn bytes(&self) -> u64 {
        self.bytes.load(Ordering::SeqCst)
    }

    pub(crate) fn letters(&self) -> u64 {
        self.letters.load(Ordering::SeqCst)
    }

    /// Whether it gave up waiting.
    pub(crate) fn waited_in_vain(&self) -> bool {
        self.in_vain.load(Ordering::SeqCst)
    }

    /// Adds what was written. The letters are counted first, so that who sees the bytes sees them.
    fn add(&self, bytes: &[u8]) {
        self.letters.fetch_add(letters_in(bytes), Ordering::SeqCst);
        self.bytes.fetch_add(bytes.len() as u64, Ordering::SeqCst);
    }

    /// Looks at most 2^24 times until so many bytes were written.
    fn wait(&self, wanted: u64) -> bool {
        for _ in 0..1u32 << 24 {
            if self.bytes() >= wanted {
                return true;
            }
            thread::yield_now();
        }
        false
    }
}

/// An alarm, of which each time is a byte.
impl<V> Alarm<V> for Seen {
    type Cause = ();

    fn cause(&self, _pool: &V) {}

    fn pool_failed(&self, _cause: ()) {
        self.add(b"!");
    }
}

/// A chronicle, of which each that has gone is a byte.
impl<V> Chronicle<V> for Seen {
    fn came(&self, _visitor: &Visitor) {}

    fn went(&self, _visitor: &Visitor, _visit: &Visit) {
        self.add(b"a");
    }

    fn obeyed(&self, _line: &[u8]) {}

    fn status(&self, _line: &[u8]) {}

    fn waits(&self, _door: usize, _peer: Option<SocketAddr>) {}

    fn control_waits(&self) {}

    fn not_accepted(&self, _error: &io::Error) {}

    fn no_volume(&self, _number: u8, _name: &[u8]) {}

    fn ends_on_failure(&self) -> bool {
        self.ends_on_failure
    }

    fn no_space(&self, _number: u8) {}
}

/// How many of the bytes are the letter `a`.
fn letters_in(bytes: &[u8]) -> u64 {
    let mut count = 0u64;
    for byte in bytes {
        if *byte == 0x61 {
            count = count.saturating_add(1);
        }
    }
    count
}

/// A client that gives two parts, one in each read, and then ends. Before one of these reads, or before each write, it waits until another client was
/// written enough.
#[derive(Drop)]
pub(crate) struct Waiting<'a> {
    log: Log,
    parts: [&'a [u8]; 2],
    reads: usize,
    /// Before which read it waits: 1 is that of the second part, and 2 the one at its end.
    waits_before: usize,
    /// Nothing is taken from it before.
    holds_writes: bool,
    /// It gives its second part again and again until then, and waits for nothing.
    repeats: bool,
    mine: &'a Seen,
    other: &'a Seen,
    /// How many bytes the other one is to be written.
    wanted: u64,
}

impl<'a> Waiting<'a> {
    pub(crate) fn new(
        parts: [&'a [u8]; 2],
        waits_before: usize,
        mine: &'a Seen,
        other: &'a Seen,
        wanted: u64,
    ) -> Waiting<'a> {
        Waiting {
            log: Log::new(),
            parts,
            reads: 0,
            waits_before,
            holds_writes: false,
            repeats: false,
            mine,
            other,
            wanted,
        }
    }

    /// A client that never reads what it is sent before the other one was written enough, and waits for nothing else.
    pub(crate) fn slow(
        parts: [&'a [u8]; 2],
        mine: &'a Seen,
        other: &'a Seen,
        wanted: u64,
    ) -> Waiting<'a> {
        Waiting {
            log: Log::new(),
            parts,
            reads: 0,
            waits_before: usize::MAX,
            holds_writes: true,
            repeats: false,
            mine,
            other,
            wanted,
        }
    }

    /// A client that gives its second part again and again until the other one was written enough, and then ends.
    pub(crate) fn again(
        parts: [&'a [u8]; 2],
        mine: &'a Seen,
        other: &'a Seen,
        wanted: u64,
    ) -> Waiting<'a> {
        Waiting {
            log: Log::new(),
            parts,
            reads: 0,
            waits_before: usize::MAX,
            holds_writes: false,
            repeats: true,
            mine,
            other,
            wanted,
        }
    }

    /// Which part its next read gives.
    fn turn(&self) -> usize {
        if self.repeats && self.reads > 1 && self.other.bytes() < self.wanted {
            return 1;
        }
        self.reads
    }

    /// Waits until the other one was written enough, and notes where it gives up.
    fn waits(&self) -> bool {
        let is_there = self.other.wait(self.wanted);
        if !is_there {
            self.mine.in_vain.store(true, Ordering::SeqCst);
        }
        is_there
    }

    /// What its next write comes to.
    fn take(&mut self, bytes: &[u8]) -> Put
        requires { 0 < length bytes.now }
        ensures some { TakesSome result (length bytes.now) }
        ensures log { self.new.log.calls ≡ self.old.log.calls }
    {
        if self.holds_writes && !self.waits() {
            return Put::Failed;
        }
        self.mine.add(bytes);
        Put::Wrote(bytes.len())
    }

    /// What its next read comes to.
    fn give(&mut self, buffer: &mut [u8]) -> Received
        requires { 0 < length buffer.old }
        ensures some { GivesSome result (length buffer.new) }
        ensures len { length buffer.new ≡ length buffer.old }
        ensures log { self.new.log.calls ≡ self.old.log.calls }
    {
        let turn = self.turn();
        self.reads = self.reads.saturating_add(1);
        if turn == self.waits_before && !self.waits() {
            return Received::Broken;
        }
        match self.parts.get(turn) {
            None => Received::End,
            Some(part) => put_front(buffer, part),
        }
    }
}

/// Copies a part to the front of a buffer, as far as it has room.
fn put_front(buffer: &mut [u8], part: &[u8]) -> Received
    requires { 0 < length buffer.old }
    ensures some { GivesSome result (length buffer.new) }
    ensures len { length buffer.new ≡ length buffer.old }
{
    let count = buffer.len().min(part.len());
    if count == 0 {
        return Received::End;
    }
    buffer[..count].copy_from_slice(&part[..count]);
    Received::Got(count)
}

impl<'a> Stream for Waiting<'a> {
    ghost calls = { λ s. s.log.calls };

    fn receive(&mut self, buffer: &mut Vec<u8>) -> Received {
        let received = self.give(buffer.as_mut_slice());
        self.log.note(&Made::Read(received), buffer.as_slice());
        received
    }

    fn send(&mut self, bytes: &[u8]) -> Put {
        let put = self.take(bytes);
        self.log.note(&Made::Written(put), bytes);
        put
    }

    fn flush(&mut self) -> bool {
        self.log.note(&Made::Flushed(true), &[]);
        true
    }
}
