//! A script over a desk.

ghost use Rattle.std.specs.Prelude.{◌≡◌, ◌<◌, ◌≤◌, ◌+◌, ◌∷◌, [], length, IfOk, OnErr, OnOk};
ghost use Rattle.tp_hub.specs.Told.{HasRoom};
ghost use Rattle.tp_hub.specs.Runs.{incoming, session_of};
ghost use Rattle.tp_lines.specs.Lines.{IsLine};
ghost use Rattle.tp_lines.specs.Plays.{Asks, Does, GivesAll, IsWhole, PlaysLine, PlaysScript, Takes, ends_last};
ghost use Rattle.tp_lines.specs.ReadLines.{AreDone, AreRead, IsReadOnce, Leads, left_from, lines_from, one_more};

use crate::held::{HeldLine, zeroes};
use crate::hex::unhex;
use crate::line::{ScriptLine, read_line};
use crate::text::tell;
use nbd_session::Profile;
use std::alloc::{AllocError, Global};
use tp_hub::{Answers, Desk, Event, Ran, Received, Stream};

/// Why a script is not played to its end.
#[derive(Clone, Copy, Debug, PartialEq, Eq)]
pub enum Stopped {
    /// A line is none.
    BadLine,
    /// There is no memory for a session.
    Memory,
    /// A write or a flush failed, or a write took nothing.
    Output,
    /// A read of the script failed, or 2^64 - 1 of them were made.
    Script,
}

/// The most bytes that are read at once.
const PIECE: usize = 65_536;

/// The most bytes of a piece in one line.
const MOST_BYTES: usize = 8192;

/// What an ask came to.
#[derive(Clone, Copy, Debug)]
struct Asked {
    ran: Ran,
    is_told: bool,
}

/// Asks once, and writes and flushes what is answered.
fn ask_once<D: Desk, S: Stream>(
    desk: &mut D,
    event: Event<'_>,
    out: &mut Answers,
    stream: &mut S,
) -> Asked
    requires number { session_of event < 64 }
    requires empty { out.old.list ≡ [] }
    requires fits { HasRoom out.old }
    ensures asked { Asks D.asks (incoming event.entry) desk.old desk.new (S.calls stream.old) (S.calls stream.new) result.ran.events result.ran.bytes result.is_told }
    ensures empty { out.new.list ≡ [] }
    ensures fits { HasRoom out.new }
{
    let ran = desk.ask(event, out);
    let is_told = tell(stream, out);
    out.clear();
    Asked { ran, is_told }
}

/// Has one event taken, and its answers written.
fn ask_event<D: Desk, S: Stream>(
    desk: &mut D,
    event: Event<'_>,
    out: &mut Answers,
    stream: &mut S,
) -> Result<(), Stopped>
    requires number { session_of event < 64 }
    requires whole { IsWhole (incoming event) }
    requires empty { out.old.list ≡ [] }
    requires fits { HasRoom out.old }
    ensures asked { Leads D.asks (λ asks did. Takes (incoming event.entry) asks did result) desk.old desk.new (S.calls stream.old) (S.calls stream.new) }
    ensures empty { out.new.list ≡ [] }
    ensures fits { HasRoom out.new }
{
    let asked = ask_once(desk, event, out, stream);
    if !asked.is_told {
        return Err(Stopped::Output);
    }
    if asked.ran.events == 0 {
        return Err(Stopped::Memory);
    }
    Ok(())
}

/// Has a piece taken, as far as a session takes any, and its answers written.
fn ask_piece<D: Desk, S: Stream>(
    desk: &mut D,
    number: u8,
    piece: &[u8],
    out: &mut Answers,
    stream: &mut S,
) -> Result<(), Stopped>
    requires number { number < 64 }
    requires empty { out.old.list ≡ [] }
    requires fits { HasRoom out.old }
    ensures asked { Leads D.asks (λ asks did. GivesAll number piece.now asks did result) desk.old desk.new (S.calls stream.old) (S.calls stream.new) }
    ensures empty { out.new.list ≡ [] }
    ensures fits { HasRoom out.new }
{
    let mut at = 0;
    while at < piece.len() {
        let asked = ask_once(desk, Event::Bytes(number, &piece[at..]), out, stream);
        if !asked.is_told {
            return Err(Stopped::Output);
        }
        if asked.ran.events > 0 {
            return Ok(());
        }
        at += asked.ran.bytes;
    }
    Ok(())
}

/// Plays one line.
fn play_line<D: Desk, S: Stream>(
    desk: &mut D,
    profile: &Profile,
    text: &[u8],
    bytes: &mut [u8],
    out: &mut Answers,
    stream: &mut S,
) -> Result<(), Stopped>
    requires room { length bytes.old ≡ 8192 }
    requires empty { out.old.list ≡ [] }
    requires fits { HasRoom out.old }
    ensures played { Leads D.asks (λ asks did. PlaysLine profile.now text.now asks did result) desk.old desk.new (S.calls stream.old) (S.calls stream.new) }
    ensures room { length bytes.new ≡ 8192 }
    ensures empty { out.new.list ≡ [] }
    ensures fits { HasRoom out.new }
{
    let Some(line) = read_line(text) else {
        return Err(Stopped::BadLine);
    };
    do_line(desk, profile, line, bytes, out, stream)
}

/// Does what a line asks for.
fn do_line<D: Desk, S: Stream>(
    desk: &mut D,
    profile: &Profile,
    line: ScriptLine<'_>,
    bytes: &mut [u8],
    out: &mut Answers,
    stream: &mut S,
) -> Result<(), Stopped>
    requires line { IsLine line }
    requires room { length bytes.old ≡ 8192 }
    requires empty { out.old.list ≡ [] }
    requires fits { HasRoom out.old }
    ensures done { Leads D.asks (λ asks did. Does profile.now line.entry asks did result) desk.old desk.new (S.calls stream.old) (S.calls stream.new) }
    ensures room { length bytes.new ≡ 8192 }
    ensures empty { out.new.list ≡ [] }
    ensures fits { HasRoom out.new }
{
    match line {
        ScriptLine::Nothing => Ok(()),
        ScriptLine::Open(number) => ask_event(desk, Event::Open(number, *profile), out, stream),
        ScriptLine::Bytes(number, digits) => {
            let len = unhex(digits, bytes);
            ask_piece(desk, number, &bytes[..len], out, stream)
        }
        ScriptLine::Hangup(number) => ask_event(desk, Event::Hangup(number), out, stream),
        ScriptLine::Message(text) => ask_event(desk, Event::Message(text), out, stream),
        ScriptLine::Status => ask_event(desk, Event::Status, out, stream),
        ScriptLine::Thin(id) => ask_event(desk, Event::ThinStatus(id), out, stream),
    }
}

/// Where a script is: the line that is being read, and how many were played.
#[derive(Drop)]
pub struct ScriptPlace {
    line: HeldLine,
    played: u64,
}

/// Plays the line that ends here, and begins the next one.
fn end_line<D: Desk, S: Stream>(
    desk: &mut D,
    profile: &Profile,
    place: &mut ScriptPlace,
    bytes: &mut [u8],
    out: &mut Answers,
    stream: &mut S,
) -> Result<(), Stopped>
    requires room { length bytes.old ≡ 8192 }
    requires empty { out.old.list ≡ [] }
    requires fits { HasRoom out.old }
    ensures played { Leads D.asks (λ asks did. PlaysLine profile.now place.old.line asks did result) desk.old desk.new (S.calls stream.old) (S.calls stream.new) }
    ensures next { OnOk result (place.new.line ≡ []) }
    ensures count { OnOk result (place.new.played ≡ one_more place.old.played) }
    ensures same { OnErr result (place.new.played ≡ place.old.played) }
    ensures room { length bytes.new ≡ 8192 }
    ensures empty { out.new.list ≡ [] }
    ensures fits { HasRoom out.new }
{
    play_line(desk, profile, place.line.text(), bytes, out, stream)?;
    place.line.clear();
    place.played = place.played.saturating_add(1);
    Ok(())
}

/// Takes one byte of a script.
fn play_byte<D: Desk, S: Stream>(
    desk: &mut D,
    profile: &Profile,
    byte: u8,
    place: &mut ScriptPlace,
    bytes: &mut [u8],
    out: &mut Answers,
    stream: &mut S,
) -> Result<(), Stopped>
    requires room { length bytes.old ≡ 8192 }
    requires empty { out.old.list ≡ [] }
    requires fits { HasRoom out.old }
    ensures played { Leads D.asks (λ asks did. AreDone (PlaysLine profile.now) (lines_from place.old.line (byte ∷ [])) place.old.played asks did place.new.played result) desk.old desk.new (S.calls stream.old) (S.calls stream.new) }
    ensures left { OnOk result (place.new.line ≡ left_from place.old.line (byte ∷ [])) }
    ensures room { length bytes.new ≡ 8192 }
    ensures empty { out.new.list ≡ [] }
    ensures fits { HasRoom out.new }
{
    if byte == b'\n' {
        return end_line(desk, profile, place, bytes, out, stream);
    }
    place.line.add(byte);
    Ok(())
}

/// Plays the lines that end in a piece, and holds the one behind them.
fn play_bytes<D: Desk, S: Stream>(
    desk: &mut D,
    profile: &Profile,
    piece: &[u8],
    place: &mut ScriptPlace,
    bytes: &mut [u8],
    out: &mut Answers,
    stream: &mut S,
) -> Result<(), Stopped>
    requires room { length bytes.old ≡ 8192 }
    requires empty { out.old.list ≡ [] }
    requires fits { HasRoom out.old }
    ensures played { Leads D.asks (λ asks did. AreDone (PlaysLine profile.now) (lines_from place.old.line piece.now) place.old.played asks did place.new.played result) desk.old desk.new (S.calls stream.old) (S.calls stream.new) }
    ensures left { OnOk result (place.new.line ≡ left_from place.old.line piece.now) }
    ensures room { length bytes.new ≡ 8192 }
    ensures empty { out.new.list ≡ [] }
    ensures fits { HasRoom out.new }
{
    for byte in piece {
        match play_byte(desk, profile, *byte, place, bytes, out, stream) {
            Ok(()) => {}
            Err(why) => return Err(why),
        }
    }
    Ok(())
}

/// Reads a script once, and plays what was read. None where it goes on.
fn play_read<D: Desk, S: Stream>(
    desk: &mut D,
    profile: &Profile,
    piece: &mut Vec<u8>,
    place: &mut ScriptPlace,
    bytes: &mut [u8],
    out: &mut Answers,
    stream: &mut S,
) -> Option<Result<(), Stopped>>
    requires some { 0 < length piece.old.items }
    requires room { length bytes.old ≡ 8192 }
    requires empty { out.old.list ≡ [] }
    requires fits { HasRoom out.old }
    ensures read { Leads D.asks (λ asks did. IsReadOnce (PlaysLine profile.now) Stopped.Script ends_last place.old.line place.old.played asks did place.new.line place.new.played result) desk.old desk.new (S.calls stream.old) (S.calls stream.new) }
    ensures some { length piece.new.items ≡ length piece.old.items }
    ensures room { length bytes.new ≡ 8192 }
    ensures empty { out.new.list ≡ [] }
    ensures fits { HasRoom out.new }
{
    match stream.receive(piece) {
        Received::Got(count) => match play_bytes(
            desk,
            profile,
            &piece[..count],
            place,
            bytes,
            out,
            stream,
        ) {
            Ok(()) => None,
            Err(why) => Some(Err(why)),
        },
        Received::NotNow => None,
        Received::End => Some(end_line(desk, profile, place, bytes, out, stream)),
        Received::Broken => Some(Err(Stopped::Script)),
    }
}

/// Reads and plays a script to its end, which ends its last line.
fn play_all<D: Desk, S: Stream>(
    desk: &mut D,
    profile: &Profile,
    piece: &mut Vec<u8>,
    place: &mut ScriptPlace,
    bytes: &mut [u8],
    out: &mut Answers,
    stream: &mut S,
) -> Result<(), Stopped>
    requires some { 0 < length piece.old.items }
    requires room { length bytes.old ≡ 8192 }
    requires empty { out.old.list ≡ [] }
    requires fits { HasRoom out.old }
    ensures { Leads D.asks (λ asks did. AreRead (PlaysLine profile.now) Stopped.Script ends_last 0 place.old.line place.old.played asks did place.new.played result) desk.old desk.new (S.calls stream.old) (S.calls stream.new) }
{
    for turn in 0..u64::MAX {
        match play_read(desk, profile, piece, place, bytes, out, stream) {
            None => {}
            Some(result) => return result,
        }
    }
    Err(Stopped::Script)
}

/// What a script is played with.
struct ScriptBuffers {
    piece: Vec<u8>,
    bytes: Vec<u8>,
    place: ScriptPlace,
    out: Answers,
}

/// Takes the memory that a script wants.
fn make_buffers(alloc: Global) -> Result<ScriptBuffers, AllocError>
    ensures { IfOk result (λ s. (0 < length s.piece.items) × (length s.bytes.items ≡ 8192) × (s.place.line ≡ []) × (s.place.played ≡ 0) × (s.out.list ≡ []) × HasRoom s.out) }
{
    let piece = zeroes(alloc, PIECE)?;
    let bytes = zeroes(alloc, MOST_BYTES)?;
    let line = HeldLine::new(alloc)?;
    let mut out = Answers::of_a_turn(alloc);
    out.make_room()?;
    Ok(ScriptBuffers {
        piece,
        bytes,
        place: ScriptPlace { line, played: 0 },
        out,
    })
}

/// How a script ended, and how many of its lines were played whole: behind them stands the line that stopped it. At most 2^64 - 1 are counted.
#[derive(Clone, Copy, Debug, PartialEq, Eq)]
pub struct Ended {
    pub result: Result<(), Stopped>,
    pub played: u64,
}

/// Plays a script, each of whose sessions is offered this profile: each line is an event, which the desk is asked, and whose answers are written, a line each, and flushed, before anything more is asked or read.
/// It stops at the first line that is none, and where a read, a write or a flush fails. `Memory` where there is none for its buffers, and nothing is read then, or for a session.
///
/// The end of the script ends its last line. No more memory is taken for a longer script or line: of a line 16400 bytes are kept, which no line has but
/// a message, which is then too long to be one.
pub fn play_script<D: Desk, S: Stream>(
    alloc: Global,
    desk: &mut D,
    profile: &Profile,
    stream: &mut S,
) -> Ended
    ensures { Leads D.asks (λ asks did. PlaysScript profile.now asks did result.played result.result) desk.old desk.new (S.calls stream.old) (S.calls stream.new) }
{
    let Ok(made) = make_buffers(alloc) else {
        return Ended {
            result: Err(Stopped::Memory),
            played: 0,
        };
    };
    let ScriptBuffers {
        mut piece,
        mut bytes,
        mut place,
        mut out,
    } = made;
    let result = play_all(
        desk, profile, &mut piece, &mut place, &mut bytes, &mut out, stream,
    );
    let played = place.played;
    Ended { result, played }
}
