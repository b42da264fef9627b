//! Reads of a client's stream that another thread makes while what was read before them is asked.

ghost use Rattle.std.specs.Prelude.{◌≡◌, ◌<◌, None, length, IfOk, IfSome, IsSomeAnd, IsTrue};
ghost use Rattle.std.proofs.Props.{props};
ghost use Rattle.tp_hub.specs.Streams.{GivesSome};
ghost use Rattle.tp_lock.specs.Framing.{given, passed};

use crate::fetching::{Fetching, TakenBack};
use crate::frames::Frames;
use crate::polled::Polled;
use nbd_session::give_back;
use std::alloc::{AllocError, Global};
use std::mem;
use std::sync::atomic::{AtomicUsize, Ordering};
use std::thread::Threads;
use tp_hub::Received;
use tp_lock::Patience;

/// The clients of a listener, as far as their [`Socket`](crate::Socket)s have to know of one another: how many there are.
#[derive(Drop)]
pub struct Crew {
    present: AtomicUsize,
    most: usize,
    patience: Patience,
}

impl Crew {
    /// Nobody yet. Clients have two threads each, as long as there are so many processors for them.
    pub fn new(processors: usize) -> Crew {
        Crew {
            present: AtomicUsize::new(0),
            most: processors / 2,
            patience: Patience::new(),
        }
    }

    /// How long it pays to wait awake for what they send.
    pub(crate) fn patience(&self) -> &Patience {
        &self.patience
    }

    fn join(&self) {
        self.present.fetch_add(1, Ordering::SeqCst);
    }

    fn leave(&self) {
        self.present.fetch_sub(1, Ordering::SeqCst);
    }

    /// Whether there is a processor for a second thread of each client.
    fn is_small(&self) -> bool {
        self.present.load(Ordering::SeqCst) <= self.most
    }
}

/// The reads ahead of one client, of which one at most is under way. While it is, nobody else reads the stream, and calls of it wait.
///
/// Who wants what it brings waits for no thread that has not begun: the read is taken back, and no other one is started before that thread has come and gone.
/// So on a machine whose processors are all taken there are few reads ahead, and more again when there is one for them.
pub(crate) struct Ahead<'c, R: Threads> {
    rt: &'c R,
    alloc: Global,
    crew: &'c Crew,
    /// The buffer of the next read ahead, empty before the first one.
    spare: Vec<u8>,
    under_way: Option<Fetching>,
    /// One that was taken back, while its thread has not been joined.
    late: Option<TakenBack>,
    ghost alone: { IfSome late (λ _. under_way ≡ None) } by { Prim.hlevel props },
}

/// A buffer of so many bytes: the spare one, if there is any.
fn take_buffer(alloc: Global, spare: &mut Vec<u8>, len: usize) -> Result<Vec<u8>, AllocError>
    requires { 0 < len }
    ensures { IfOk result (λ v. 0 < length v.items) }
{
    if spare.is_empty() {
        return vec![in alloc; 0u8; len];
    }
    Ok(mem::replace(spare, Vec::new(alloc)))
}

impl<'c, R: Threads> Ahead<'c, R> {
    /// For a client that has just connected: no read is under way.
    pub(crate) fn new(rt: &'c R, alloc: Global, crew: &'c Crew) -> Ahead<'c, R>
        ensures { result.under_way ≡ None }
    {
        crew.join();
        Ahead {
            rt,
            alloc,
            crew,
            spare: Vec::new(alloc),
            under_way: None,
            late: None,
        }
    }

    /// What threads are started by.
    pub(crate) fn runtime(&self) -> &'c R {
        self.rt
    }

    /// Joins a thread that came too late, if it has ended, and tells whether there is none any more.
    fn is_rid_of_late(&mut self) -> bool
        ensures none { IsTrue result → self.new.late ≡ None }
        ensures same { self.new.under_way ≡ self.old.under_way }
    {
        let Some(late) = self.late.take() else {
            return true;
        };
        if !late.has_ended() {
            self.late = Some(late);
            return false;
        }
        self.spare = late.join(self.rt);
        true
    }

    /// Starts a read behind the last one, where the client has sent more and there is a processor for it. Where there is no memory or no thread for it none
    /// is made.
    pub(crate) fn start(&mut self, stream: &mut Polled<'_>, frames: Frames, len: usize)
        requires room { 0 < len }
        requires alone { self.old.under_way ≡ None }
        ensures { IfSome self.new.under_way (λ f. f.handle.promise.frames ≡ frames) }
    {
        if !self.is_rid_of_late() || !self.crew.is_small() || !stream.has_more() {
            return;
        }
        let Some(stream) = stream.another() else {
            return;
        };
        let Ok(bytes) = take_buffer(self.alloc, &mut self.spare, len) else {
            return;
        };
        self.under_way = Fetching::start(self.rt, self.alloc, stream, frames, bytes);
    }

    /// What the read that is under way brings, if there is one and its thread has begun: its buffer takes the place of the other one. Where that is not as long
    /// any more, the read has failed. Where its thread has not begun it is taken back.
    pub(crate) fn finish(&mut self, frames: &mut Frames, buffer: &mut Vec<u8>) -> Option<Received>
        requires room { 0 < length buffer.old.items }
        requires same { IfSome self.old.under_way (λ f. f.handle.promise.frames ≡ frames.old) }
        ensures some { IfSome result (λ received. GivesSome received (length buffer.new.items)) }
        ensures follows { IfSome result (λ received. frames.new ≡ passed frames.old (given received buffer.new.items)) }
        ensures kept { result ≡ None → frames.new ≡ frames.old }
        ensures len { length buffer.new.items ≡ length buffer.old.items }
        ensures over { self.new.under_way ≡ None }
        ensures none { result ≡ None → IfSome self.old.under_way (λ f. IsSomeAnd self.new.late (λ taken. taken.fetching ≡ f)) }
    {
        let Some(fetching) = self.under_way.take() else {
            return None;
        };
        let fetching = match fetching.take_back() {
            Ok(taken) => {
                self.late = Some(taken);
                return None;
            }
            Err(fetching) => fetching,
        };
        let fetched = fetching.join(self.rt);
        if fetched.bytes.len() != buffer.len() {
            return Some(Received::Broken);
        }
        *frames = fetched.frames;
        self.spare = mem::replace(buffer, fetched.bytes);
        Some(fetched.received)
    }

    /// The client is gone, and with it the read that is under way: no thread reads the stream when
    /// this returns.
    pub(crate) fn end(self) {
        let Ahead {
            rt,
            alloc: _,
            crew,
            spare,
            under_way,
            late,
        } = self;
        crew.leave();
        if let Some(fetching) = under_way {
            fetching.end(rt);
        }
        if let Some(taken) = late {
            give_back(taken.join(rt));
        }
        give_back(spare);
    }
}
