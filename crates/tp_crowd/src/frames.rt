//! Where the frames of a client end, so that a long one is whole before it is asked.

ghost use Rattle.std.specs.Prelude.{◌≡◌, ◌+◌, ◌<◌, ◌≤◌, ◌++◌, ◌-◌, length, take};
ghost use Rattle.nbd_wire.specs.Reading.{fixed_len as fixed_of};
ghost use Rattle.tp_lock.specs.Framing.{ends_in, first_kind, framed, head_come, is_between, kind_at, kind_behind as kind_then, missing_of, passed};

use nbd_wire::{Kind, fixed_len, wanted};
use std::marker::Model;

/// How many bytes the longest fixed part of a frame has, that of a request.
const HEAD: usize = 28;

/// The first byte of a request, that of its magic number.
const FIRST_OF_REQUEST: u8 = 0x25;

/// How the bytes that were read of a client fall into frames, by their fixed parts. It decides how much is read at once, and nothing else: how a client's
/// bytes are cut makes no difference to what is answered.
#[derive(Drop)]
pub(crate) struct Frames {
    kind: Kind,
    head: [u8; HEAD],
    /// How many bytes of the fixed part have come; 0 between frames and in the data of one.
    held: usize,
    /// How many bytes of the data are missing.
    left: usize,
    /// How many requests have begun.
    requests: u64,
}

impl Model for Frames {
    ghost use Rattle.std.specs.Prelude.{◌<◌, take};
    ghost use Rattle.nbd_wire.specs.Reading.{fixed_len};
    ghost use Rattle.tp_lock.specs.Framing.{Framed};

    ghost Value = { Framed };

    ghost view = { λ f. record { kind = f.kind; head = take f.held f.head; left = f.left } };

    ghost invariant = { λ f. f.held < fixed_len f.kind };
}

/// What a frame is that begins with this byte. With the first request the options have ended, and they have no other sign of that.
fn kind_from(kind: Kind, first: u8) -> Kind
    ensures { result ≡ first_kind kind first }
{
    match kind {
        Kind::Flags => Kind::Flags,
        Kind::Options => {
            if first == FIRST_OF_REQUEST {
                Kind::Requests
            } else {
                Kind::Options
            }
        }
        Kind::Requests => Kind::Requests,
    }
}

/// What comes behind a frame.
fn kind_behind(kind: Kind) -> Kind
    ensures { result ≡ kind_then kind }
{
    match kind {
        Kind::Flags => Kind::Options,
        Kind::Options => Kind::Options,
        Kind::Requests => Kind::Requests,
    }
}

/// Puts bytes behind those of a fixed part that have come.
fn put_behind(head: &mut [u8; HEAD], held: usize, bytes: &[u8])
    requires { held + length bytes.now ≤ 28 }
    ensures { take (held + length bytes.now) head.new ≡ take held head.old ++ bytes.now }
{
    head[held..held + bytes.len()].copy_from_slice(bytes);
}

impl Frames {
    ghost use Rattle.std.specs.Prelude.{◌≡◌, ◌<◌, ◌≤◌, [], length, take, true};
    ghost use Rattle.nbd_wire.specs.Reading.{fixed_len as fixed_of};
    ghost use Rattle.tp_lock.specs.Framing.{ends_in, framed, head_come, is_between, kind_at, missing_of, passed};
    ghost use Rattle.nbd_wire.specs.declared.Kind.TheVariants.{Flags};

    /// For a client that has sent nothing yet: the next frame is its client flags.
    pub(crate) fn new() -> Frames
        ensures { result ≡ framed Flags [] 0 }
    {
        Frames {
            kind: Kind::Flags,
            head: [0; HEAD],
            held: 0,
            left: 0,
            requests: 0,
        }
    }

    /// A copy.
    pub(crate) fn copy(&self) -> Frames
        ensures { result ≡ self.now }
    {
        Frames {
            kind: self.kind,
            head: self.head,
            held: self.held,
            left: self.left,
            requests: self.requests,
        }
    }

    /// How many requests have begun, at most 2^64 - 1.
    pub(crate) fn requests(&self) -> u64 {
        self.requests
    }

    /// Where so many bytes of a fixed part have come, and so many requests had begun.
    fn of_head(kind: Kind, head: [u8; HEAD], held: usize, requests: u64) -> Frames
        requires { held ≤ fixed_of kind }
        ensures { result ≡ head_come kind (take held head) }
    {
        let fixed = fixed_len(kind);
        if held < fixed {
            return Frames {
                kind,
                head,
                held,
                left: 0,
                requests,
            };
        }
        Frames {
            kind: kind_behind(kind),
            head,
            held: 0,
            left: wanted(kind, &head[..held]) - fixed,
            requests: requests.saturating_add((kind == Kind::Requests) as u64),
        }
    }

    /// How many bytes are missing of a frame that has begun, as far as its fixed part tells; 0 between frames.
    pub(crate) fn missing(&self) -> usize
        ensures { result ≡ missing_of self.now }
    {
        if self.left > 0 {
            self.left
        } else if self.held > 0 {
            fixed_len(self.kind) - self.held
        } else {
            0
        }
    }

    /// Whether no frame has begun.
    fn is_between(&self) -> bool
        ensures { result ≡ is_between self.now }
    {
        self.missing() == 0
    }

    /// The kind of a frame to which this byte belongs as one of its fixed part.
    fn kind_with(&self, byte: u8) -> Kind
        ensures kind { result ≡ kind_at self.now.kind self.now.head byte }
        ensures room { length self.now.head < fixed_of result }
    {
        if self.held == 0 {
            kind_from(self.kind, byte)
        } else {
            self.kind
        }
    }

    /// Takes bytes of a fixed part, up to its end.
    fn take_head(&mut self, bytes: &[u8]) -> usize
        requires some { 0 < length bytes.now }
        requires none { self.old.left ≡ 0 }
        ensures passed { self.new ≡ passed self.old (take result bytes.now) }
        ensures ended { ends_in self.old (take result bytes.now) ≡ is_between self.new }
        ensures some { 0 < result }
        ensures most { result ≤ length bytes.now }
    {
        let kind = self.kind_with(bytes[0]);
        let count = (fixed_len(kind) - self.held).min(bytes.len());
        put_behind(&mut self.head, self.held, &bytes[..count]);
        *self = Frames::of_head(kind, self.head, self.held + count, self.requests);
        count
    }

    /// Takes bytes up to the end of a fixed part or of a frame, and tells how many.
    fn take(&mut self, bytes: &[u8]) -> usize
        requires { 0 < length bytes.now }
        ensures passed { self.new ≡ passed self.old (take result bytes.now) }
        ensures ended { ends_in self.old (take result bytes.now) ≡ is_between self.new }
        ensures some { 0 < result }
        ensures most { result ≤ length bytes.now }
    {
        if self.left == 0 {
            return self.take_head(bytes);
        }
        let count = self.left.min(bytes.len());
        self.left -= count;
        count
    }

    /// Goes on over bytes that were read, and tells whether a frame ended in them.
    pub(crate) fn pass(&mut self, bytes: &[u8]) -> bool
        ensures passed { self.new ≡ passed self.old bytes.now }
        ensures ended { result ≡ ends_in self.old bytes.now }
    {
        let mut has_ended = false;
        let mut at = 0;
        while at < bytes.len() {
            at += self.take(&bytes[at..]);
            has_ended |= self.is_between();
        }
        has_ended
    }

    /// Goes on over bytes that a read brought, and tells whether it must end with them: a frame ended
    /// in them, or no request had come before.
    ///
    /// A frame before the first request is taken for an option or a request by its first byte, while
    /// the session knows which of them it expects. It ends the connection at the last byte of the
    /// fixed part that it expects, if the magic number is wrong. That may be in the middle of what the
    /// frame is taken for, so a read that waits for the frame's end could wait for ever.
    pub(crate) fn pass_read(&mut self, bytes: &[u8]) -> bool
        ensures passed { self.new ≡ passed self.old bytes.now }
        ensures ended { ends_in self.old bytes.now ≡ true → result ≡ true }
    {
        let is_settled = self.requests > 0;
        let has_ended = self.pass(bytes);
        has_ended || !is_settled
    }
}
