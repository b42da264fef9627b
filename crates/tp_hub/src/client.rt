//! One client over a desk.

ghost use Rattle.std.specs.Prelude.{◌≡◌, ◌<◌, ◌≤◌, ◌++◌, [], List, length, Some};
ghost use Rattle.tp_hub.specs.Told.{HasRoom, IsFull, KeepsRoom};
ghost use Rattle.tp_hub.specs.Desks.{AreAsked, Exchange};
ghost use Rattle.tp_hub.specs.Runs.{incoming, session_of};
ghost use Rattle.tp_hub.specs.Streams.{Makes, StreamCall};
ghost use Rattle.tp_hub.specs.Carrying.{AreRounds, Exchanges, GoesOnOrEnds, Hands, IsCarried, IsLeft, IsSaid, Round, Stops, asks_in, calls_in, is_over, over_if};

use crate::answers::Answers;
use crate::desk::Desk;
use crate::event::Event;
use crate::hub::Ran;
use crate::stream::{Received, Stream, send_all};
use nbd_session::Profile;

/// How a client ended.
#[derive(Clone, Copy, Debug, PartialEq, Eq)]
pub enum Carried {
    /// There was no memory for its session, or for its answers: nothing was read or written.
    NoMemory,
    /// The session's number was taken: nothing was read.
    InUse,
    /// The session ended.
    SessionOver,
    /// The session ended, and a write of its last answers, or the flush behind them, failed.
    LastLost,
    /// There was nothing more to read.
    EndOfInput,
    /// A read failed, or 2^64 - 1 of them were made.
    InputFailed,
    /// A write or a flush failed, or a write took nothing.
    OutputFailed,
}

/// One ask: how much was taken, whether the session is over, and whether the answers were written.
#[derive(Clone, Copy, Debug)]
struct Exchanged {
    ran: Ran,
    is_over: bool,
    is_said: bool,
}

/// Writes and flushes bytes, if there are any.
fn say<S: Stream>(stream: &mut S, bytes: &[u8]) -> bool
    ensures { Makes (S.calls stream.old) (S.calls stream.new) (λ did. IsSaid bytes.now did result) }
{
    if bytes.is_empty() {
        return true;
    }
    send_all(stream, bytes)
}

/// Asks one event of a session, writes what is answered, and empties the buffer for the next one.
fn exchange<D: Desk, S: Stream>(
    desk: &mut D,
    number: u8,
    event: Event<'_>,
    stream: &mut S,
    out: &mut Answers,
) -> Exchanged
    requires number { number < 64 }
    requires own { session_of event ≡ number }
    requires empty { out.old.list ≡ [] }
    requires fits { HasRoom out.old }
    ensures did { Exchanges D.asks out.old.most number (incoming event.entry) desk.old desk.new result.ran.events result.ran.bytes
        (S.calls stream.old) (S.calls stream.new) result.is_over result.is_said }
    ensures empty { out.new.list ≡ [] }
    ensures fits { HasRoom out.new }
    ensures wide { KeepsRoom out.old out.new }
    ensures long { out.old.marks ≤ out.new.marks }
{
    let ran = desk.ask(event, out);
    let is_over = out.closes(number);
    let is_said = say(stream, out.bytes());
    out.clear();
    Exchanged {
        ran,
        is_over,
        is_said,
    }
}

/// How a client ends whose session is over.
fn over(is_said: bool) -> Carried
    ensures { result ≡ over_if is_said }
{
    if is_said {
        Carried::SessionOver
    } else {
        Carried::LastLost
    }
}

/// Asks a piece, the rest of it again where no more answers fitted, and writes the answers of each ask before the next. None where the client
/// goes on.
fn hand<D: Desk, S: Stream>(
    desk: &mut D,
    number: u8,
    piece: &[u8],
    stream: &mut S,
    out: &mut Answers,
) -> Option<Carried>
    requires number { number < 64 }
    requires empty { out.old.list ≡ [] }
    requires fits { HasRoom out.old }
    ensures handed { (xs : List Exchange) × AreAsked D.asks desk.old xs desk.new × Makes (S.calls stream.old) (S.calls stream.new) (λ did. Hands out.old.most number piece.now xs did result) }
    ensures empty { out.new.list ≡ [] }
    ensures fits { HasRoom out.new }
    ensures wide { KeepsRoom out.old out.new }
    ensures long { out.old.marks ≤ out.new.marks }
{
    let mut at = 0;
    while at < piece.len() {
        let did = exchange(
            desk,
            number,
            Event::Bytes(number, &piece[at..]),
            stream,
            out,
        );
        if did.is_over {
            return Some(over(did.is_said));
        }
        if !did.is_said {
            return Some(Carried::OutputFailed);
        }
        if did.ran.events > 0 {
            return None;
        }
        at += did.ran.bytes;
    }
    None
}

/// Zeros behind the bytes of a buffer that a read has filled, as far as it has memory.
fn widen_if_full(buffer: &mut Vec<u8>, count: usize)
    requires { 0 < length buffer.old.items }
    ensures { 0 < length buffer.new.items }
{
    let room = buffer.capacity();
    if count == buffer.len() && count < room {
        let _ = buffer.resize(room, 0);
    }
}

/// Reads once, and asks and writes what that leads to. None where the client goes on.
fn read_once<D: Desk, S: Stream>(
    desk: &mut D,
    number: u8,
    stream: &mut S,
    buffer: &mut Vec<u8>,
    out: &mut Answers,
) -> Option<Carried>
    requires number { number < 64 }
    requires room { 0 < length buffer.old.items }
    requires empty { out.old.list ≡ [] }
    requires fits { HasRoom out.old }
    ensures went { (xs : List Exchange) × AreAsked D.asks desk.old xs desk.new × Makes (S.calls stream.old) (S.calls stream.new) (λ did. GoesOnOrEnds out.old.most number xs did result) }
    ensures room { 0 < length buffer.new.items }
    ensures empty { out.new.list ≡ [] }
    ensures fits { HasRoom out.new }
    ensures wide { KeepsRoom out.old out.new }
    ensures long { out.old.marks ≤ out.new.marks }
{
    match stream.receive(buffer) {
        Received::Got(count) => {
            let ending = hand(desk, number, &buffer[..count], stream, out);
            widen_if_full(buffer, count);
            ending
        }
        Received::NotNow => None,
        Received::End => Some(Carried::EndOfInput),
        Received::Broken => Some(Carried::InputFailed),
    }
}

/// Reads, asks and writes, until one of them comes to an end.
fn listen<D: Desk, S: Stream>(
    desk: &mut D,
    number: u8,
    stream: &mut S,
    buffer: &mut Vec<u8>,
    out: &mut Answers,
) -> Carried
    requires number { number < 64 }
    requires room { 0 < length buffer.old.items }
    requires empty { out.old.list ≡ [] }
    requires fits { HasRoom out.old }
    ensures listened { (rounds : List Round) × (last : List Exchange) × (end : List StreamCall) × AreAsked D.asks desk.old (asks_in rounds ++ last) desk.new
        × (S.calls stream.new ≡ S.calls stream.old ++ (calls_in rounds ++ end)) × AreRounds out.old.most number rounds × Stops out.old.most number rounds last end result }
    ensures empty { out.new.list ≡ [] }
    ensures fits { HasRoom out.new }
    ensures wide { KeepsRoom out.old out.new }
    ensures long { out.old.marks ≤ out.new.marks }
{
    for turn in 0..u64::MAX {
        match read_once(desk, number, stream, buffer, out) {
            None => {}
            Some(ending) => return ending,
        }
    }
    Carried::InputFailed
}

/// Whether the session was over before its client was gone.
fn was_over(ending: Carried) -> bool
    ensures { result ≡ is_over ending }
{
    matches!(ending, Carried::SessionOver | Carried::LastLost)
}

/// Has the session leave, unless it was over: its number may be another client's by then.
fn hang_up<D: Desk>(desk: &mut D, number: u8, ending: Carried, out: &mut Answers)
    requires number { number < 64 }
    requires empty { out.old.list ≡ [] }
    requires fits { HasRoom out.old }
    ensures left { (xs : List Exchange) × AreAsked D.asks desk.old xs desk.new × IsLeft number xs ending }
    ensures empty { out.new.list ≡ [] }
    ensures wide { KeepsRoom out.old out.new }
    ensures long { out.old.marks ≤ out.new.marks }
{
    if was_over(ending) {
        return;
    }
    desk.ask(Event::Hangup(number), out);
    out.clear();
}

/// Carries a client: opens a session with its profile, asks what is read, in order and once, writes and flushes the answers of each ask before the next one, and at the end has
/// the session leave, unless it ended before. Where the stream failed, what went out is a beginning of the answers.
///
/// Room for one longest answer is made first, so that each ask takes something and the client's end is told for certain. `out` keeps all
/// room that it had or got. When a read fills the buffer, it grows to all the memory that it has.
pub fn carry<D: Desk, S: Stream>(
    desk: &mut D,
    number: u8,
    profile: Profile,
    stream: &mut S,
    buffer: &mut Vec<u8>,
    out: &mut Answers,
) -> Carried
    requires number { number < 64 }
    requires room { 0 < length buffer.old.items }
    requires empty { out.old.list ≡ [] }
    ensures carried { (xs : List Exchange) × AreAsked D.asks desk.old xs desk.new × Makes (S.calls stream.old) (S.calls stream.new) (λ did. IsCarried number profile out.new xs did result) }
    ensures empty { out.new.list ≡ [] }
    ensures wide { KeepsRoom out.old out.new }
    ensures long { out.old.marks ≤ out.new.marks }
{
    if out.make_room().is_err() {
        return Carried::NoMemory;
    }
    let opened = exchange(desk, number, Event::Open(number, profile), stream, out);
    if opened.ran.events == 0 {
        return Carried::NoMemory;
    }
    if opened.is_over {
        return Carried::InUse;
    }
    if !opened.is_said {
        hang_up(desk, number, Carried::OutputFailed, out);
        return Carried::OutputFailed;
    }
    let ending = listen(desk, number, stream, buffer, out);
    hang_up(desk, number, ending, out);
    ending
}
