//! The calls of a stream, held beside it in no bytes.
ghost use Rattle.std.specs.Prelude.{◌≡◌, [], List};
ghost use Rattle.std.specs.Borrow.{ftrue};
ghost use Rattle.tp_hub.specs.Streams.{StreamCall};
ghost use Rattle.tp_hub.specs.Logs.{noted};

use crate::stream::{Put, Received};
use std::marker::{Model, PhantomData};

/// A call that was made of a stream, and its answer.
#[derive(Clone, Copy, Debug)]
pub enum Made {
    /// A read; its bytes stand at the front of the buffer.
    Read(Received),
    /// A write of the bytes.
    Written(Put),
    /// A flush, and whether it succeeded.
    Flushed(bool),
}

/// The calls of a stream for contracts alone, as a [`Stream`](crate::Stream) tells them. It takes no bytes, and its calls do nothing when they run.
#[derive(Drop)]
pub struct Log {
    marker: PhantomData<u8>,
    pub ghost calls: { List StreamCall },
}

impl Model for Log {
    ghost also_owns = { λ _. ftrue };
}

// It owns nothing.
unsafe impl Send for Log {}

unsafe impl Sync for Log {}

impl Log {
    /// No call yet.
    pub fn new() -> Log
        ensures { result.calls ≡ [] }
    {
        Log {
            marker: PhantomData,
        }
    }

    /// Adds a call. The bytes are those of the buffer behind a read, or those that were to be written.
    pub fn note(&mut self, _call: &Made, _bytes: &[u8])
        ensures { self.new.calls ≡ noted _call.now _bytes.now self.old.calls }
    {}
}
