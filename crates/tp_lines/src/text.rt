//! Answers in text, a line each.

ghost use Rattle.std.specs.Prelude.{◌≡◌, ◌+◌, ◌*◌, ◌≤◌, ◌++◌, drop, length, take};
ghost use Rattle.std.specs.Fmt.{decimal};
ghost use Rattle.tp_hub.specs.Carrying.{IsSaid};
ghost use Rattle.tp_hub.specs.Streams.{Makes, Writes};
ghost use Rattle.tp_hub.specs.Told.{Says, len_of, told, total};
ghost use Rattle.tp_lines.specs.Lines.{hex_digit};
ghost use Rattle.tp_lines.specs.Texts.{answer_of, hexed, newline, numbered, text_in, text_of};

use itoa::Buffer;
use tp_hub::{Answers, Mark, Stream, write_out};

/// So many bytes are put into digits at once.
const PART: usize = 2048;

const PART_DIGITS: usize = 4096;

/// A hexadecimal digit.
fn hex_digit(value: u8) -> u8
    requires { value ≤ 15 }
    ensures { result ≡ hex_digit value }
{
    if value < 10 { value + 48 } else { value + 87 }
}

/// Puts bytes in hexadecimal digits to the front of a buffer, and tells how many digits they are.
fn hex(bytes: &[u8], out: &mut [u8]) -> usize
    requires { 2 * length bytes.now ≤ length out.old }
    ensures digits { take result out.new ≡ hexed bytes.now }
    ensures count { result ≡ 2 * length bytes.now }
    ensures len { length out.new ≡ length out.old }
{
    for i in 0..bytes.len() {
        out[2 * i] = hex_digit(bytes[i] / 16);
        out[2 * i + 1] = hex_digit(bytes[i] % 16);
    }
    2 * bytes.len()
}

/// So many bytes from a place on.
fn part(bytes: &[u8], at: usize, len: usize) -> &[u8]
    requires { at + len ≤ length bytes.now }
    ensures { result.now ≡ take len (drop at bytes.now) }
{
    bytes.split_at(at).1.split_at(len).0
}

/// Writes a part of the bytes, of 2048 at most, in hexadecimal digits.
fn put_part<S: Stream>(stream: &mut S, bytes: &[u8]) -> bool
    requires { length bytes.now ≤ 2048 }
    ensures { Writes (S.calls stream.old) (S.calls stream.new) (hexed bytes.now) result }
{
    let mut digits = [0; PART_DIGITS];
    let len = hex(bytes, &mut digits);
    write_out(stream, &digits[..len])
}

/// Writes bytes in hexadecimal digits, or tells that the stream failed.
fn put_hex<S: Stream>(stream: &mut S, bytes: &[u8]) -> bool
    ensures { Writes (S.calls stream.old) (S.calls stream.new) (hexed bytes.now) result }
{
    let mut at = 0;
    while at < bytes.len() {
        let len = (bytes.len() - at).min(PART);
        if !put_part(stream, part(bytes, at, len)) {
            return false;
        }
        at += len;
    }
    true
}

/// Copies bytes to a place of a buffer, and tells where they end.
pub(crate) fn copy(out: &mut [u8], at: usize, bytes: &[u8]) -> usize
    requires { at + length bytes.now ≤ length out.old }
    ensures line { take result out.new ≡ take at out.old ++ bytes.now }
    ensures end { result ≡ at + length bytes.now }
    ensures len { length out.new ≡ length out.old }
{
    let end = at + bytes.len();
    out[at..end].copy_from_slice(bytes);
    end
}

/// A word of 16 letters at most, a space and a number.
fn put_word(out: &mut [u8], word: &[u8], number: u8) -> usize
    requires word { length word.now ≤ 16 }
    requires fits { 40 ≤ length out.old }
    ensures line { take result out.new ≡ word.now ++ decimal number }
    ensures end { result ≤ 36 }
    ensures len { length out.new ≡ length out.old }
{
    let mut digits = Buffer::new();
    let after_word = copy(out, 0, word);
    copy(out, after_word, digits.format(number as u64).as_bytes())
}

/// The same as a line.
fn number_line(out: &mut [u8], word: &[u8], number: u8) -> usize
    requires word { length word.now ≤ 16 }
    requires fits { 40 ≤ length out.old }
    ensures line { take result out.new ≡ numbered word.now number }
    ensures end { result ≤ 37 }
{
    let end = put_word(out, word, number);
    copy(out, end, b"\n")
}

/// Writes what is sent to a session.
fn put_sent<S: Stream>(stream: &mut S, session: u8, bytes: &[u8]) -> bool
    ensures { Writes (S.calls stream.old) (S.calls stream.new) (text_of (Says session bytes.now)) result }
{
    let mut head = [0; 64];
    let word = put_word(&mut head, b"sent ", session);
    let end = copy(&mut head, word, b" ");
    if !write_out(stream, &head[..end]) {
        return false;
    }
    if !put_hex(stream, bytes) {
        return false;
    }
    write_out(stream, b"\n")
}

/// Writes a line of a word and a number.
fn put_number<S: Stream>(stream: &mut S, word: &[u8], number: u8) -> bool
    requires { length word.now ≤ 16 }
    ensures { Writes (S.calls stream.old) (S.calls stream.new) (numbered word.now number) result }
{
    let mut line = [0; 64];
    let end = number_line(&mut line, word, number);
    write_out(stream, &line[..end])
}

/// Writes a text as a line.
fn put_line<S: Stream>(stream: &mut S, text: &[u8]) -> bool
    ensures { Writes (S.calls stream.old) (S.calls stream.new) (text.now ++ newline) result }
{
    if !write_out(stream, text) {
        return false;
    }
    write_out(stream, b"\n")
}

/// Writes the line of one answer, with the bytes of its mark.
fn tell_mark<S: Stream>(stream: &mut S, mark: &Mark, bytes: &[u8]) -> bool
    ensures { Writes (S.calls stream.old) (S.calls stream.new) (text_of (answer_of mark.now bytes.now)) result }
{
    match *mark {
        Mark::Sent { session, .. } => put_sent(stream, session, bytes),
        Mark::End { session } => put_number(stream, b"end ", session),
        Mark::Refused { reason } => put_number(stream, b"refused ", reason.number()),
        Mark::Done => put_line(stream, b"ok"),
        Mark::Line { .. } => put_line(stream, bytes),
    }
}

/// How many bytes a mark speaks of.
fn len_of(mark: &Mark) -> usize
    ensures { result ≡ len_of mark.now }
{
    match *mark {
        Mark::Sent { len, .. } | Mark::Line { len } => len,
        Mark::End { .. } | Mark::Refused { .. } | Mark::Done => 0,
    }
}

/// Writes the lines of marks, whose bytes stand end to end.
fn tell_marks<S: Stream>(stream: &mut S, marks: &[Mark], bytes: &[u8]) -> bool
    requires { total marks.now ≤ length bytes.now }
    ensures { Writes (S.calls stream.old) (S.calls stream.new) (text_in (told marks.now bytes.now)) result }
{
    let mut at = 0;
    for mark in marks {
        let len = len_of(mark);
        if !tell_mark(stream, mark, part(bytes, at, len)) {
            return false;
        }
        at += len;
    }
    true
}

/// Writes answers as text, a line each, and flushes them, or tells that the stream failed: then it took a beginning of them. Where there are none
/// nothing is done.
///
/// `sent SID HEX` is what a session is sent, in hexadecimal digits, `end SID` its end, `refused N` the number of a refusal, `ok` a message that is
/// done, and a status line stands alone.
pub fn tell<S: Stream>(stream: &mut S, answers: &Answers) -> bool
    ensures { Makes (S.calls stream.old) (S.calls stream.new) (λ did. IsSaid (text_in answers.now.list) did result) }
{
    let marks = answers.marks();
    if marks.is_empty() {
        return true;
    }
    if !tell_marks(stream, marks, answers.bytes()) {
        return false;
    }
    stream.flush()
}
