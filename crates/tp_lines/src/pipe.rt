//! A reader and a writer as one stream.

ghost use Rattle.std.specs.Prelude.{◌≡◌, ◌<◌, ◌≤◌, [], List, length, false, true};
ghost use Rattle.std.specs.Io.KnownBytes.{Appends, Consumes, IsAtEnd};
ghost use Rattle.tp_hub.specs.Streams.{GivesSome, IsSent, StreamCall, TakesSome};
ghost use Rattle.tp_lines.specs.Pipes.{Appends-prop, Consumes-prop, IsAtEnd-prop, IsPiped, IsRead, IsWritten, Opening, given, is_over, taken};

use std::io::{ErrorKind, Read, Write};
use std::marker::{Brand, PhantomData};
use tp_hub::{Log, Made, Put, Received, Stream, send_all};

/// Where a pipe begins, which its maker picks.
pub trait Begins {
    ghost opening: { Opening };
}

impl Begins for Brand {
    ghost use Rattle.std.specs.Prelude.{None};

    ghost opening = { record { reader = 0; writer = 0; left = None; told = None } };
}

/// A reader and a writer.
#[derive(Drop)]
pub struct Ends<'a, R: Read, W: Write> {
    pub input: &'a mut R,
    pub output: &'a mut W,
}

/// A reader and a writer as a stream that tells its calls, from where it begins. A call that is interrupted may be made again.
#[derive(Drop)]
pub struct Piped<'a, R: Read, W: Write, K: Begins> {
    log: Log,
    input: &'a mut R,
    output: &'a mut W,
    of: PhantomData<K>,
    ghost reader: { input.ghost_name ≡ K.opening.reader },
    ghost writer: { output.ghost_name ≡ K.opening.writer },
    ghost read: { Consumes K.opening.left (R.remaining input.now) (given log.calls) } by { Consumes-prop K.opening.left (R.remaining input.now) (given log.calls) },
    ghost ends: { is_over false log.calls ≡ true → IsAtEnd (R.remaining input.now) } by { IsAtEnd-prop (is_over false log.calls) (R.remaining input.now) },
    ghost wrote: { Appends K.opening.told (W.contents output.now) (taken log.calls) } by { Appends-prop K.opening.told (W.contents output.now) (taken log.calls) },
}

impl<'a, R: Read, W: Write, K: Begins> Piped<'a, R, W, K> {
    /// No call was made yet.
    pub fn begin(ends: Ends<'a, R, W>) -> Piped<'a, R, W, K>
        requires { K.opening ≡ record { reader = ends.input.ghost_name; writer = ends.output.ghost_name; left = R.remaining ends.input.now; told = W.contents ends.output.now } }
        ensures { result.log.calls ≡ [] }
    {
        let Ends { input, output } = ends;
        Piped {
            log: Log::new(),
            input,
            output,
            of: PhantomData,
        }
    }

    /// Gives the reader and the writer back, with what the calls were of them.
    pub fn end(self) -> Ends<'a, R, W>
        ensures reader { result.input.ghost_name ≡ K.opening.reader }
        ensures writer { result.output.ghost_name ≡ K.opening.writer }
        ensures piped { IsPiped K.opening.left (R.remaining result.input.now) K.opening.told (W.contents result.output.now) self.entry.log.calls }
    {
        let Piped {
            log: _,
            input,
            output,
            of: _,
        } = self;
        Ends { input, output }
    }
}

/// Reads some bytes to the front of the buffer.
fn read_some<R: Read>(input: &mut R, buffer: &mut [u8]) -> Received
    requires { 0 < length buffer.old }
    ensures some { GivesSome result (length buffer.new) }
    ensures len { length buffer.new ≡ length buffer.old }
    ensures read { IsRead result (R.remaining input.old) (R.remaining input.new) buffer.new }
{
    match input.read(buffer) {
        Ok(0) => Received::End,
        Ok(count) => Received::Got(count),
        Err(error) if error.kind() == ErrorKind::Interrupted => Received::NotNow,
        Err(_) => Received::Broken,
    }
}

/// The same of a vector.
fn read_into<R: Read>(input: &mut R, buffer: &mut Vec<u8>) -> Received
    requires { 0 < length buffer.old.items }
    ensures some { GivesSome result (length buffer.new.items) }
    ensures len { length buffer.new.items ≡ length buffer.old.items }
    ensures read { IsRead result (R.remaining input.old) (R.remaining input.new) buffer.new.items }
{
    read_some(input, buffer.as_mut_slice())
}

/// Writes some of the bytes.
fn write_some<W: Write>(output: &mut W, bytes: &[u8]) -> Put
    ensures some { TakesSome result (length bytes.now) }
    ensures wrote { IsWritten result (W.contents output.old) (W.contents output.new) bytes.now }
{
    match output.write(bytes) {
        Ok(0) => Put::Failed,
        Ok(count) => Put::Wrote(count),
        Err(error) if error.kind() == ErrorKind::Interrupted => Put::Interrupted,
        Err(_) => Put::Failed,
    }
}

impl<'a, R: Read, W: Write, K: Begins> Stream for Piped<'a, R, W, K> {
    ghost calls = { λ piped. piped.log.calls };

    fn receive(&mut self, buffer: &mut Vec<u8>) -> Received {
        let received = read_into(self.input, buffer);
        self.log.note(&Made::Read(received), buffer.as_slice());
        received
    }

    fn send(&mut self, bytes: &[u8]) -> Put {
        let put = write_some(self.output, bytes);
        self.log.note(&Made::Written(put), bytes);
        put
    }

    fn flush(&mut self) -> bool {
        let done = self.output.flush().is_ok();
        self.log.note(&Made::Flushed(done), &[]);
        done
    }
}

/// Writes a text and flushes it, as a pipe from where this one begins.
fn send_since<'a, R: Read, W: Write, K: Begins>(
    ends: Ends<'a, R, W>,
    text: &[u8],
) -> (Ends<'a, R, W>, bool)
    requires { K.opening ≡ record { reader = ends.input.ghost_name; writer = ends.output.ghost_name; left = R.remaining ends.input.now; told = W.contents ends.output.now } }
    ensures same { (result.0.input.ghost_name ≡ ends.entry.input.ghost_name) × (result.0.output.ghost_name ≡ ends.entry.output.ghost_name) }
    ensures wrote { (did : List StreamCall) × IsPiped (R.remaining ends.entry.input.now) (R.remaining result.0.input.now) (W.contents ends.entry.output.now) (W.contents result.0.output.now) did × IsSent text.now did result.1 }
{
    let mut piped = Piped::<R, W, K>::begin(ends);
    let is_sent = send_all(&mut piped, text);
    (piped.end(), is_sent)
}

/// Writes a text and flushes it, or tells that the writer failed.
pub fn send_text<R: Read, W: Write>(input: &mut R, output: &mut W, text: &[u8]) -> bool
    ensures { (did : List StreamCall) × IsPiped (R.remaining input.old) (R.remaining input.new) (W.contents output.old) (W.contents output.new) did × IsSent text.now did result }
{
    let (_, is_sent) = send_since::<R, W, Brand>(Ends { input, output }, text);
    is_sent
}
