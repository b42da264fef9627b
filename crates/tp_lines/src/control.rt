//! Control lines over a desk: messages to a pool that is served, and questions for its status lines and for pages of its listings.

ghost use Rattle.std.specs.Prelude.{◌≡◌, ◌<◌, ◌∷◌, ℕ, [], IfOk, OnOk, length};
ghost use Rattle.tp_msg.specs.Messages.{first_word};
ghost use Rattle.tp_hub.specs.Told.{HasRoom};
ghost use Rattle.tp_hub.specs.Runs.{incoming};
ghost use Rattle.tp_lines.specs.Controls.{AnswersLine, AnswersOrEnds, AttendsLines, IsControl, IsPlain, drops_last, ended_by, is_command, is_control_word, message_of};
ghost use Rattle.tp_lines.specs.ReadLines.{AreDone, AreRead, IsReadOnce, Leads, left_from, lines_from};
ghost use Rattle.tp_lines.specs.Lines.{IsLine, spelling};
ghost use Rattle.tp_lines.specs.Pages.{IsPageLine, page_spelling};

use crate::held::{HeldLine, zeroes};
use crate::line::{ScriptLine, cut, read_line};
use crate::pages::{PageOf, read_page};
use crate::text::tell;
use std::alloc::{AllocError, Global};
use tp_hub::{Answers, Desk, Event, Received, Stream};

/// Why no more lines are answered.
#[derive(Clone, Copy, Debug, PartialEq, Eq)]
pub enum LinesEnd {
    /// There was no memory for the buffers: nothing was read or written.
    NoMemory,
    /// There was nothing more to read.
    EndOfInput,
    /// A read failed, or 2^64 - 1 of them were made.
    InputFailed,
    /// A write or a flush failed, or a write took nothing: a beginning of the last answer went out.
    OutputFailed,
}

/// What breaks lines off.
#[derive(Clone, Copy, Debug)]
pub enum Lost {
    /// A read failed, or 2^64 - 1 of them were made.
    Input,
    /// A write or a flush failed.
    Output,
}

/// The ending that it is.
fn ended_by(lost: Lost) -> LinesEnd
    ensures { result ≡ ended_by lost }
{
    match lost {
        Lost::Input => LinesEnd::InputFailed,
        Lost::Output => LinesEnd::OutputFailed,
    }
}

/// The most bytes of one read.
const PIECE: usize = 256;

/// The bytes before the first space, or all.
fn first_word(text: &[u8]) -> &[u8]
    ensures { result.now ≡ first_word text.now }
{
    match cut(text) {
        None => text,
        Some((word, _)) => word,
    }
}

/// Whether a word is the first one of control lines.
fn is_control_word(word: &[u8]) -> bool
    ensures { result ≡ is_control_word word.now }
{
    word == b"thin".as_slice()
        || word == b"size".as_slice()
        || word == b"map".as_slice()
        || word == b"delta".as_slice()
        || word == b"status".as_slice()
        || word == b"clients".as_slice()
        || word == b"health".as_slice()
        || word == b"flush".as_slice()
        || word == b"stop".as_slice()
}

/// Whether a line is one that a desk may obey itself.
fn is_command(line: &[u8]) -> bool
    ensures { result ≡ is_command line.now }
{
    line == b"clients".as_slice()
        || line == b"flush".as_slice()
        || line == b"health".as_slice()
        || line == b"stop".as_slice()
        || line == b"stop now".as_slice()
}

/// The message that a line is, if it asks for no status line and no page. A control line with wrong arguments is a message without its argument: `BadSyntax`.
fn message_of(line: &[u8]) -> &[u8]
    ensures { result.now ≡ message_of line.now }
{
    if is_control_word(first_word(line)) && !is_command(line) {
        return b"create_thin".as_slice();
    }
    line
}

/// The event of a control line that a script could have: only where that asks for a status line it is the same.
fn event_like<'a>(asked: ScriptLine<'_>, line: &'a [u8]) -> Event<'a>
    requires good { IsLine asked }
    requires spelled { line.now ≡ spelling asked }
    ensures { IsPlain line.now (incoming result) }
{
    let message = message_of(line);
    match asked {
        ScriptLine::Status => Event::Status,
        ScriptLine::Thin(id) => Event::ThinStatus(id),
        ScriptLine::Nothing => Event::Message(message),
        ScriptLine::Open(_) => Event::Message(message),
        ScriptLine::Bytes(_, _) => Event::Message(message),
        ScriptLine::Hangup(_) => Event::Message(message),
        ScriptLine::Message(_) => Event::Message(message),
    }
}

/// The event that a line is, where it asks for no page: `status` and `thin ID` ask for a status line, and any other is a message to the pool.
fn plain_event(line: &[u8]) -> Event<'_>
    ensures { IsPlain line.now (incoming result) }
{
    match read_line(line) {
        None => Event::Message(message_of(line)),
        Some(asked) => event_like(asked, line),
    }
}

/// The event of a line that asks for a page or a size.
fn page_event<'a>(asked: PageOf, line: &'a [u8]) -> Event<'a>
    requires good { IsPageLine asked }
    requires spelled { line.now ≡ page_spelling asked }
    ensures { IsControl line.now (incoming result) }
{
    let _ = line;
    match asked {
        PageOf::Size(volume) => Event::Size(volume),
        PageOf::Map(volume, block) => Event::Map(volume, block),
        PageOf::Delta(one, other, block) => Event::Delta(one, other, block),
    }
}

/// The event that a line is: `size ID` asks for a volume's size, `map ID FROM` and `delta OLD NEW FROM` ask for a page of a listing, `status` and `thin ID` for a status line, and any other is a message to the
/// pool.
fn event_of(line: &[u8]) -> Event<'_>
    ensures { IsControl line.now (incoming result) }
{
    match read_page(line) {
        None => plain_event(line),
        Some(asked) => page_event(asked, line),
    }
}

/// Asks once for a line that is not empty, and writes and flushes what is answered. False where the stream failed.
fn ask_line<D: Desk, S: Stream>(
    desk: &mut D,
    line: &[u8],
    out: &mut Answers,
    stream: &mut S,
) -> bool
    requires some { 0 < length line.now }
    requires empty { out.old.list ≡ [] }
    requires fits { HasRoom out.old }
    ensures answered { Leads D.asks (λ asks did. AnswersLine line.now asks did result) desk.old desk.new (S.calls stream.old) (S.calls stream.new) }
    ensures empty { out.new.list ≡ [] }
    ensures fits { HasRoom out.new }
{
    desk.ask(event_of(line), out);
    let is_told = tell(stream, out);
    out.clear();
    is_told
}

/// Answers a control line, which has no newline here: its event is asked once, and what is answered is written, a line each, and flushed. An empty line
/// does nothing. False where the stream failed: then it took a beginning of the answer.
///
/// The lines are `status`, `thin ID` for the status line of a volume, `size ID` for its size, `map ID FROM` and `delta OLD NEW FROM` for a page of a listing, from a block on, and any other is a
/// message to the pool, such as `create_thin 1`. Lines with these first words or with `stop`, `flush`, `health` or `clients`, and with wrong arguments, are refused by `BadSyntax`. `ok`, `refused N`, the status line, the size and the page are the answers. A page has up to seven `OFFSET+LENGTH`, in bytes, and then
/// `next BLOCK`, or `end` where there is no more.
pub fn answer_line<D: Desk, S: Stream>(
    desk: &mut D,
    line: &[u8],
    out: &mut Answers,
    stream: &mut S,
) -> bool
    requires empty { out.old.list ≡ [] }
    requires fits { HasRoom out.old }
    ensures answered { Leads D.asks (λ asks did. AnswersLine line.now asks did result) desk.old desk.new (S.calls stream.old) (S.calls stream.new) }
    ensures empty { out.new.list ≡ [] }
    ensures fits { HasRoom out.new }
{
    if line.is_empty() {
        return true;
    }
    ask_line(desk, line, out, stream)
}

/// Answers the line that ends here, and begins the next one.
fn end_line<D: Desk, S: Stream>(
    desk: &mut D,
    line: &mut HeldLine,
    out: &mut Answers,
    stream: &mut S,
) -> Result<(), Lost>
    requires empty { out.old.list ≡ [] }
    requires fits { HasRoom out.old }
    ensures answered { Leads D.asks (λ asks did. AnswersOrEnds line.old asks did result) desk.old desk.new (S.calls stream.old) (S.calls stream.new) }
    ensures next { OnOk result (line.new ≡ []) }
    ensures empty { out.new.list ≡ [] }
    ensures fits { HasRoom out.new }
{
    if !answer_line(desk, line.text(), out, stream) {
        return Err(Lost::Output);
    }
    line.clear();
    Ok(())
}

/// Takes one byte of the lines.
fn answer_byte<D: Desk, S: Stream>(
    desk: &mut D,
    byte: u8,
    line: &mut HeldLine,
    out: &mut Answers,
    stream: &mut S,
) -> Result<(), Lost>
    requires empty { out.old.list ≡ [] }
    requires fits { HasRoom out.old }
    ensures answered { Leads D.asks (λ asks did. (count : ℕ) → (after : ℕ) × AreDone AnswersOrEnds (lines_from line.old (byte ∷ [])) count asks did after result) desk.old desk.new (S.calls stream.old) (S.calls stream.new) }
    ensures left { OnOk result (line.new ≡ left_from line.old (byte ∷ [])) }
    ensures empty { out.new.list ≡ [] }
    ensures fits { HasRoom out.new }
{
    if byte == b'\n' {
        return end_line(desk, line, out, stream);
    }
    line.add(byte);
    Ok(())
}

/// Answers the lines that end in a piece, and holds the one behind them.
fn answer_bytes<D: Desk, S: Stream>(
    desk: &mut D,
    piece: &[u8],
    line: &mut HeldLine,
    out: &mut Answers,
    stream: &mut S,
) -> Result<(), Lost>
    requires empty { out.old.list ≡ [] }
    requires fits { HasRoom out.old }
    ensures answered { Leads D.asks (λ asks did. (count : ℕ) → (after : ℕ) × AreDone AnswersOrEnds (lines_from line.old piece.now) count asks did after result) desk.old desk.new (S.calls stream.old) (S.calls stream.new) }
    ensures left { OnOk result (line.new ≡ left_from line.old piece.now) }
    ensures empty { out.new.list ≡ [] }
    ensures fits { HasRoom out.new }
{
    for byte in piece {
        match answer_byte(desk, *byte, line, out, stream) {
            Ok(()) => {}
            Err(why) => return Err(why),
        }
    }
    Ok(())
}

/// Reads once, and answers the lines that end in what was read. None where it goes on.
fn answer_read<D: Desk, S: Stream>(
    desk: &mut D,
    piece: &mut Vec<u8>,
    line: &mut HeldLine,
    out: &mut Answers,
    stream: &mut S,
) -> Option<Result<(), Lost>>
    requires some { 0 < length piece.old.items }
    requires empty { out.old.list ≡ [] }
    requires fits { HasRoom out.old }
    ensures read { Leads D.asks (λ asks did. (count : ℕ) → (after : ℕ) × IsReadOnce AnswersOrEnds Lost.Input drops_last line.old count asks did line.new after result) desk.old desk.new (S.calls stream.old) (S.calls stream.new) }
    ensures some { length piece.new.items ≡ length piece.old.items }
    ensures empty { out.new.list ≡ [] }
    ensures fits { HasRoom out.new }
{
    match stream.receive(piece) {
        Received::Got(count) => match answer_bytes(desk, &piece[..count], line, out, stream) {
            Ok(()) => None,
            Err(why) => Some(Err(why)),
        },
        Received::NotNow => None,
        Received::End => Some(Ok(())),
        Received::Broken => Some(Err(Lost::Input)),
    }
}

/// Reads and answers lines until there are no more.
fn answer_all<D: Desk, S: Stream>(
    desk: &mut D,
    piece: &mut Vec<u8>,
    line: &mut HeldLine,
    out: &mut Answers,
    stream: &mut S,
) -> Result<(), Lost>
    requires some { 0 < length piece.old.items }
    requires empty { out.old.list ≡ [] }
    requires fits { HasRoom out.old }
    ensures { Leads D.asks (λ asks did. (count : ℕ) × AreRead AnswersOrEnds Lost.Input drops_last 0 line.old 0 asks did count result) desk.old desk.new (S.calls stream.old) (S.calls stream.new) }
{
    for turn in 0..u64::MAX {
        match answer_read(desk, piece, line, out, stream) {
            None => {}
            Some(result) => return result,
        }
    }
    Err(Lost::Input)
}

/// What lines are read and answered with.
struct Buffers {
    piece: Vec<u8>,
    line: HeldLine,
    out: Answers,
}

/// Takes the memory that lines want.
fn make_buffers(alloc: Global) -> Result<Buffers, AllocError>
    ensures { IfOk result (λ b. (0 < length b.piece.items) × (b.line ≡ []) × (b.out.list ≡ []) × HasRoom b.out) }
{
    let piece = zeroes(alloc, PIECE)?;
    let line = HeldLine::new(alloc)?;
    let mut out = Answers::of_a_turn(alloc);
    out.make_room()?;
    Ok(Buffers { piece, line, out })
}

/// Reads control lines, and answers each as [`answer_line`] does before the next one, until there is nothing more to read, or a read, a write or a flush fails.
///
/// What stands behind the last newline is not asked for, since a connection that breaks off may have cut it. A carriage return before a newline is a byte
/// of the line. No more memory is taken for a longer line: 16400 bytes of it are kept, which are a message that is too long to be one.
pub fn attend_lines<D: Desk, S: Stream>(alloc: Global, desk: &mut D, stream: &mut S) -> LinesEnd
    ensures { Leads D.asks (λ asks did. AttendsLines asks did result) desk.old desk.new (S.calls stream.old) (S.calls stream.new) }
{
    let Ok(made) = make_buffers(alloc) else {
        return LinesEnd::NoMemory;
    };
    let Buffers {
        mut piece,
        mut line,
        mut out,
    } = made;
    match answer_all(desk, &mut piece, &mut line, &mut out, stream) {
        Ok(()) => LinesEnd::EndOfInput,
        Err(why) => ended_by(why),
    }
}
