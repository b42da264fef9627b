//! A client's TCP stream.

ghost use Rattle.std.specs.Prelude.{◌≡◌, ◌<◌, ◌≤◌, ◌+◌, ◌-◌, [], length, min, IfSome, None};
ghost use Rattle.std.proofs.Props.{props};
ghost use Rattle.std.specs.Io.KnownBytes.{Consumes};
ghost use Rattle.tp_hub.specs.Streams.{GivesSome, TakesSome};
ghost use Rattle.tp_lines.specs.Pipes.{IsRead, IsWritten};
ghost use Rattle.tp_lock.specs.Framing.{at_first, given, given_in, passed};

use crate::ahead::{Ahead, Crew};
use crate::ending::may_be_repeated;
use crate::frames::Frames;
use crate::polled::Polled;
use std::alloc::Global;
use std::io::{ErrorKind, Read, Write};
use std::net::TcpStream;
use std::thread::Threads;
use std::time::{Clock, Duration};
use tp_hub::{Log, Made, Put, Received, Stream};

/// The most bytes that are taken at once of frames that are shorter.
const PIECE: usize = 262_144;

/// Where so many bytes of a frame are missing they are read alone, so that it ends what is asked and the next one begins what is asked behind it.
const LONG: usize = 65_536;

/// Seconds for which input of a client is discarded after its session has ended.
const LAST_SECONDS: u64 = 2;

/// While so many bytes are asked, what the client sends behind them is read: to start a thread takes little beside them.
const LONG_TO_ASK: usize = 262_144;

/// A TCP stream of the system, with the calls that were made of it for contracts. Each is told as the system answered it, but that an end or a failure which comes
/// behind bytes of one read is told by the next read; what the peer was sent, or what reached it, no contract says.
///
/// A read ends with the bytes of one call of the system, or if no frame ended in them, with the
/// frame that has begun: a client waits for no answer before it has sent that. So a long WRITE with
/// which a read begins is asked for once, and used from where it was read. Before the first request
/// each read ends with the bytes of one call.
///
/// Who reads waits awake for some tens of microseconds before its thread sleeps, as long as its client has asked again within such a time of late.
///
/// While a long WRITE is asked, what its client has sent behind it is read by a thread of its own, as long as the clients are few: for at most half as many
/// clients as there are processors. That read is told, as any other, when its bytes are handed out. Where that thread has not begun when the next read is
/// wanted, that one is made here.
pub struct Socket<'c, R: Threads> {
    log: Log,
    frames: Frames,
    stream: Polled<'c>,
    ahead: Ahead<'c, R>,
    ghost follows: { frames ≡ passed at_first (given_in log.calls) },
    ghost beside: { IfSome ahead.under_way (λ f. f.handle.promise.frames ≡ frames) } by { Prim.hlevel props },
}

impl<'c, R: Threads> Socket<'c, R> {
    /// The stream of one of these clients, of which no call was made yet. What is written to it goes out at once, where the system lets it.
    pub fn new(rt: &'c R, alloc: Global, crew: &'c Crew, stream: TcpStream) -> Socket<'c, R>
        ensures { result.log.calls ≡ [] }
    {
        Socket {
            log: Log::new(),
            frames: Frames::new(),
            stream: Polled::new(stream, crew.patience()),
            ahead: Ahead::new(rt, alloc, crew),
        }
    }

    /// How many requests were read of it.
    pub(crate) fn requests(&self) -> u64 {
        self.frames.requests()
    }
}

impl<'c, R: Threads + Clock> Socket<'c, R> {
    /// Ends it, and a read that is under way: the client reads all that was written, and then the
    /// end.
    ///
    /// What the client sends meanwhile is discarded, for at most 2 s.
    pub fn close(self) {
        self.close_within(Duration::from_secs(LAST_SECONDS));
    }

    /// Ends it as `close` does, with another limit.
    pub(crate) fn close_within(self, limit: Duration) {
        let Socket {
            log: _,
            frames: _,
            mut stream,
            ahead,
        } = self;
        let rt = ahead.runtime();
        let is_sound = stream.end_sending();
        ahead.end();
        if is_sound {
            stream.discard(rt, limit);
        }
    }
}

/// What a read ahead brought, or else a read brings now.
fn read<R: Threads>(
    ahead: &mut Ahead<'_, R>,
    stream: &mut Polled<'_>,
    frames: &mut Frames,
    buffer: &mut Vec<u8>,
) -> Received
    requires room { 0 < length buffer.old.items }
    requires beside { IfSome ahead.old.under_way (λ f. f.handle.promise.frames ≡ frames.old) }
    ensures some { GivesSome result (length buffer.new.items) }
    ensures len { length buffer.new.items ≡ length buffer.old.items }
    ensures follows { frames.new ≡ passed frames.old (given result buffer.new.items) }
    ensures over { ahead.new.under_way ≡ None }
{
    match ahead.finish(frames, buffer) {
        Some(received) => received,
        None => read_frames(stream, frames, buffer.as_mut_slice()),
    }
}

/// Whether so much was read that it takes long to ask.
fn is_long(received: Received) -> bool {
    matches!(received, Received::Got(LONG_TO_ASK..))
}

/// Reads some bytes to the front of the buffer.
fn read_some<T: Read>(stream: &mut T, buffer: &mut [u8]) -> Received
    requires { 0 < length buffer.old }
    ensures some { GivesSome result (length buffer.new) }
    ensures len { length buffer.new ≡ length buffer.old }
    ensures read { IsRead result (T.remaining stream.old) (T.remaining stream.new) buffer.new }
{
    match stream.read(buffer) {
        Ok(0) => Received::End,
        Ok(count) => Received::Got(count),
        Err(error) if may_be_repeated(&error) => Received::NotNow,
        Err(_) => Received::Broken,
    }
}

/// Up to where a read goes on, behind so many bytes of a buffer, where so many are missing of a frame.
fn reach(missing: usize, at: usize, len: usize) -> usize
    requires { at < len }
    ensures more { at < result }
    ensures within { result ≤ len }
    ensures whole { at + min missing (len - at) ≤ result }
    ensures alone { 65536 ≤ missing → result ≡ at + min missing (len - at) }
    ensures piece { missing < 65536 → min 262144 len ≤ result }
{
    let end = at + missing.min(len - at);
    if missing >= LONG {
        end
    } else {
        end.max(PIECE.min(len)).max(at + 1)
    }
}

/// What the reads so far come to, where the last one brought nothing: what they brought, if they did.
fn brought(at: usize, last: Received) -> Received
    ensures none { at ≡ 0 → result ≡ last }
    ensures some { 0 < at → result ≡ Received.Got at }
{
    if at > 0 { Received::Got(at) } else { last }
}

/// Reads some bytes to the front of the buffer: behind the first request up to the end of a frame,
/// if the buffer has the room.
pub(crate) fn read_frames<T: Read>(
    stream: &mut T,
    frames: &mut Frames,
    buffer: &mut [u8],
) -> Received
    requires { 0 < length buffer.old }
    ensures some { GivesSome result (length buffer.new) }
    ensures len { length buffer.new ≡ length buffer.old }
    ensures follows { frames.new ≡ passed frames.old (given result buffer.new) }
    ensures read { Consumes (T.remaining stream.old) (T.remaining stream.new) (given result buffer.new) }
{
    let mut at = 0;
    for turn in 0..u64::MAX {
        let end = reach(frames.missing(), at, buffer.len());
        let received = read_some(stream, &mut buffer[at..end]);
        let Received::Got(count) = received else {
            return brought(at, received);
        };
        let has_ended = frames.pass_read(&buffer[at..at + count]);
        at += count;
        if has_ended || at >= buffer.len() {
            return Received::Got(at);
        }
    }
    brought(at, Received::Broken)
}

/// Writes some of the bytes by one call.
fn write_some<T: Write>(stream: &mut T, bytes: &[u8]) -> Put
    ensures some { TakesSome result (length bytes.now) }
    ensures wrote { IsWritten result (T.contents stream.old) (T.contents stream.new) bytes.now }
{
    match stream.write(bytes) {
        Ok(0) => Put::Failed,
        Ok(count) => Put::Wrote(count),
        Err(error) if error.kind() == ErrorKind::Interrupted => Put::Interrupted,
        Err(_) => Put::Failed,
    }
}

impl<'c, R: Threads> Stream for Socket<'c, R> {
    ghost calls = { λ s. s.log.calls };

    fn receive(&mut self, buffer: &mut Vec<u8>) -> Received {
        let received = read(&mut self.ahead, &mut self.stream, &mut self.frames, buffer);
        self.log.note(&Made::Read(received), buffer.as_slice());
        if is_long(received) {
            let frames = self.frames.copy();
            self.ahead.start(&mut self.stream, frames, buffer.len());
        }
        received
    }

    fn send(&mut self, bytes: &[u8]) -> Put {
        let put = write_some(&mut self.stream, bytes);
        self.log.note(&Made::Written(put), bytes);
        put
    }

    fn flush(&mut self) -> bool {
        let done = self.stream.flush().is_ok();
        self.log.note(&Made::Flushed(done), &[]);
        done
    }
}
