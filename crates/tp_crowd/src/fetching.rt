//! Reads of a client's stream in threads of their own, which are taken back where such a thread has not begun.

ghost use Rattle.std.specs.Prelude.{◌≡◌, ◌<◌, length, IfErr, IfOk, IfSome};
ghost use Rattle.tp_crowd.specs.Fetches.{IsFetched};

use crate::frames::Frames;
use crate::sockets::read_frames;
use nbd_session::give_back;
use std::alloc::Global;
use std::io::{self, ErrorKind, Read};
use std::net::TcpStream;
use std::sync::Arc;
use std::sync::atomic::{AtomicBool, Ordering};
use std::thread;
use std::thread::{Promise, PromisedHandle, Threads};
use tp_hub::Received;

/// What a read in a thread of its own brought: to the front of a buffer of its own. Where it was taken back, nothing.
#[derive(Drop)]
pub(crate) struct Fetched {
    pub(crate) bytes: Vec<u8>,
    pub(crate) frames: Frames,
    pub(crate) received: Received,
}

/// What is known of it: that its buffer has room, the bytes that were read, and that the frames are followed on from where they stood before.
#[derive(Drop)]
pub(crate) struct Behind {
    frames: Frames,
}

impl Promise<Fetched> for Behind {
    ghost use Rattle.tp_crowd.specs.Fetches.{IsFetched};

    ghost kept_by = { λ behind fetched. IsFetched behind.frames fetched };
}

/// Whether nobody had a read before, which is now this caller's.
fn claim(is_claimed: &AtomicBool) -> bool {
    !is_claimed.swap(true, Ordering::SeqCst)
}

/// A stream that is read until a flag is set: from then on each read counts as interrupted.
#[derive(Drop)]
struct Stoppable {
    stream: TcpStream,
    is_over: Arc<AtomicBool>,
}

impl Read for Stoppable {
    fn read(&mut self, buffer: &mut [u8]) -> io::Result<usize> {
        if self.is_over.load(Ordering::SeqCst) {
            return Err(io::Error::from(ErrorKind::Interrupted));
        }
        self.stream.read(buffer)
    }
}

/// Reads from a stream that waits, unless that was taken back.
fn fetch(
    is_claimed: &AtomicBool,
    mut stream: Stoppable,
    mut frames: Frames,
    mut bytes: Vec<u8>,
) -> Fetched
    requires { 0 < length bytes.items }
    ensures { IsFetched frames result }
{
    if !claim(is_claimed) {
        return Fetched {
            bytes,
            frames,
            received: Received::NotNow,
        };
    }
    let received = read_frames(&mut stream, &mut frames, bytes.as_mut_slice());
    Fetched {
        bytes,
        frames,
        received,
    }
}

/// A read that a thread of its own makes, unless who started it comes first and takes it back.
#[derive(Drop)]
pub(crate) struct Fetching {
    is_claimed: Arc<AtomicBool>,
    /// Whether its thread must stop, even in the middle of a frame.
    is_over: Arc<AtomicBool>,
    handle: PromisedHandle<Fetched, Behind>,
}

impl Fetching {
    /// Starts it. None where there is no memory or no thread for it.
    pub(crate) fn start<R: Threads>(
        rt: &R,
        alloc: Global,
        stream: TcpStream,
        frames: Frames,
        bytes: Vec<u8>,
    ) -> Option<Fetching>
        requires { 0 < length bytes.items }
        ensures { IfSome result (λ f. f.handle.promise.frames ≡ frames) }
    {
        let is_claimed = Arc::new(alloc, AtomicBool::new(false)).ok()?;
        let theirs = Arc::try_clone(&is_claimed).ok()?;
        let is_over = Arc::new(alloc, AtomicBool::new(false)).ok()?;
        let stops = Arc::try_clone(&is_over).ok()?;
        let stream = Stoppable {
            stream,
            is_over: stops,
        };
        let behind = Behind {
            frames: frames.copy(),
        };
        let read = move || -> Fetched
            requires { 0 < length bytes.items }
            ensures { IsFetched frames result }
        { fetch(&theirs, stream, frames, bytes) };
        let handle = thread::spawn_with(rt, behind, read).ok()?;
        Some(Fetching {
            is_claimed,
            is_over,
            handle,
        })
    }

    /// Takes it back, or gives it as it is where its thread has begun.
    pub(crate) fn take_back(self) -> Result<TakenBack, Fetching>
        ensures taken { IfOk result (λ taken. taken.fetching ≡ self) }
        ensures begun { IfErr result (λ fetching. fetching ≡ self) }
    {
        if claim(&self.is_claimed) {
            Ok(TakenBack { fetching: self })
        } else {
            Err(self)
        }
    }

    /// What it brings, for which it is waited.
    pub(crate) fn join<R: Threads>(self, rt: &R) -> Fetched
        ensures { IsFetched self.handle.promise.frames result }
    {
        let Fetching {
            is_claimed: _,
            is_over: _,
            handle,
        } = self;
        handle.join(rt)
    }

    /// Ends it: its thread makes no further read, and has ended when this returns.
    pub(crate) fn end<R: Threads>(self, rt: &R) {
        self.is_over.store(true, Ordering::SeqCst);
        give_back(self.join(rt).bytes);
    }
}

/// A read that was taken back, so that its thread reads nothing when it comes.
#[derive(Drop)]
pub(crate) struct TakenBack {
    fetching: Fetching,
}

impl TakenBack {
    /// Whether its thread has come, and gone.
    pub(crate) fn has_ended(&self) -> bool {
        Arc::strong_count(&self.fetching.is_claimed) == 1
    }

    /// Its buffer, when its thread has ended.
    pub(crate) fn join<R: Threads>(self, rt: &R) -> Vec<u8> {
        let TakenBack { fetching } = self;
        fetching.join(rt).bytes
    }
}
