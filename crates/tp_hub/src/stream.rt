//! A client's stream: what is read from it, and what is written to it.

ghost use Rattle.std.specs.Prelude.{◌≡◌, ◌<◌, [], ◌∷◌, ◌++◌, ◌≤◌, List, length, unwrap_or};
ghost use Rattle.tp_hub.specs.Streams.{Flushes, GivesSome, IsPut, IsSent, Makes, StreamCall, TakesSome, read_call, some_call, write_call};

/// What a read came to.
#[derive(Clone, Copy, Debug, PartialEq, Eq)]
pub enum Received {
    /// So many bytes, one at least.
    Got(usize),
    /// The read was interrupted.
    NotNow,
    /// There are no more bytes.
    End,
    /// The read failed.
    Broken,
}

/// What a write came to.
#[derive(Clone, Copy, Debug, PartialEq, Eq)]
pub enum Put {
    /// It took so many bytes, one at least.
    Wrote(usize),
    Interrupted,
    /// It failed, or took nothing.
    Failed,
}

/// A stream that tells which calls were made of it, and what each answered.
pub trait Stream {
    ghost calls: { Self → List StreamCall };

    /// Reads some bytes to the front of the buffer, in whose place a stream may put another one of its length that begins with them.
    fn receive(&mut self, buffer: &mut Vec<u8>) -> Received
        requires { 0 < length buffer.old.items }
        ensures calls { calls self.new ≡ calls self.old ++ read_call result buffer.new.items ∷ [] }
        ensures some { GivesSome result (length buffer.new.items) }
        ensures len { length buffer.new.items ≡ length buffer.old.items };

    /// Writes a beginning of the bytes.
    fn send(&mut self, bytes: &[u8]) -> Put
        requires { 0 < length bytes.now }
        ensures calls { calls self.new ≡ calls self.old ++ write_call result bytes.now ∷ [] }
        ensures some { TakesSome result (length bytes.now) };

    fn flush(&mut self) -> bool
        ensures { calls self.new ≡ calls self.old ++ Flushes result ∷ [] };
}

/// Writes some of the bytes: none where it was interrupted, and None where the stream failed.
fn put_some<S: Stream>(stream: &mut S, bytes: &[u8]) -> Option<usize>
    requires { 0 < length bytes.now }
    ensures bound { unwrap_or result 0 ≤ length bytes.now }
    ensures calls { S.calls stream.new ≡ S.calls stream.old ++ some_call result bytes.now ∷ [] }
{
    match stream.send(bytes) {
        Put::Wrote(count) => Some(count),
        Put::Interrupted => Some(0),
        Put::Failed => None,
    }
}

/// Writes all bytes, or tells that the stream failed. A short write goes on.
pub fn write_out<S: Stream>(stream: &mut S, bytes: &[u8]) -> bool
    ensures { Makes (S.calls stream.old) (S.calls stream.new) (λ did. IsPut bytes.now did result) }
{
    let mut at = 0;
    for turn in 0..u64::MAX {
        if at >= bytes.len() {
            return true;
        }
        match put_some(stream, &bytes[at..]) {
            None => return false,
            Some(count) => at += count,
        }
    }
    false
}

/// Writes all bytes and flushes them, or tells that the stream failed.
pub fn send_all<S: Stream>(stream: &mut S, bytes: &[u8]) -> bool
    ensures { Makes (S.calls stream.old) (S.calls stream.new) (λ did. IsSent bytes.now did result) }
{
    if !write_out(stream, bytes) {
        return false;
    }
    stream.flush()
}
