//! The lines of a script.

ghost use Rattle.std.specs.Prelude.{◌≡◌, ◌<◌, ◌++◌, ◌∷◌, ℕ, List, MatchOption};
ghost use Rattle.std.specs.Bool.{MatchBool};
ghost use Rattle.std.specs.Fmt.{decimal};
ghost use Rattle.tp_lines.specs.Lines.{IsHex, IsLine, IsNoLine, are_hex_digits, is_hex_digit, spelling};
ghost use Rattle.tp_lines.specs.Split.{HasNoSpace, IsCut, IsSplit, IsUnsplit};

use nbd_session::id_of;

/// A line of a script. Sessions are numbered from 0 to 63.
#[derive(Clone, Copy, Debug, PartialEq, Eq)]
pub enum ScriptLine<'a> {
    /// An empty line: nothing comes.
    Nothing,
    /// `open SID`: a client comes.
    Open(u8),
    /// `bytes SID HEX`: it sends a piece, which is in hexadecimal digits here.
    Bytes(u8, &'a [u8]),
    /// `hangup SID`: it goes.
    Hangup(u8),
    /// `message TEXT`: a text that is to be a message to the pool.
    Message(&'a [u8]),
    /// `status`: the pool's status line is wanted.
    Status,
    /// `thin ID`: a volume's is.
    Thin(u32),
}

/// The least hexadecimal digits of a piece, and the most.
const LEAST_DIGITS: usize = 2;

const MOST_DIGITS: usize = 16384;

/// The number of a session, 0 to 63, in decimal digits without leading zeros.
fn session_of(text: &[u8]) -> Option<u8>
    ensures { MatchOption result ((n : ℕ) → n < 64 → text.now ≡ decimal n → ⊥) (λ n. (n < 64) × (text.now ≡ decimal n)) }
{
    let id = volume_of(text)?;
    if id >= 64 {
        return None;
    }
    Some(id as u8)
}

/// The id of a volume, in such digits.
pub(crate) fn volume_of(text: &[u8]) -> Option<u32>
    ensures { MatchOption result ((n : ℕ) → n < 16777216 → text.now ≡ decimal n → ⊥) (λ n. (n < 16777216) × (text.now ≡ decimal n)) }
{
    match id_of(text) {
        None => None,
        Some(id) => Some(id.number()),
    }
}

/// Whether a byte is a hexadecimal digit, which is no capital letter.
fn is_hex_digit(byte: u8) -> bool
    ensures { result ≡ is_hex_digit byte }
{
    (48 <= byte && byte <= 57) || (97 <= byte && byte <= 102)
}

fn are_hex_digits(text: &[u8]) -> bool
    ensures { result ≡ are_hex_digits text.now }
{
    for byte in text {
        if !is_hex_digit(*byte) {
            return false;
        }
    }
    true
}

/// Whether a text is a piece of 1 to 8192 bytes in hexadecimal digits.
fn is_hex(text: &[u8]) -> bool
    ensures { MatchBool result (IsHex text.now) (IsHex text.now → ⊥) }
{
    if text.len() < LEAST_DIGITS {
        return false;
    }
    if text.len() > MOST_DIGITS {
        return false;
    }
    if text.len() % 2 > 0 {
        return false;
    }
    are_hex_digits(text)
}

/// The text before the first space, and the one behind it. None where there is no space.
pub(crate) fn cut(text: &[u8]) -> Option<(&[u8], &[u8])>
    ensures { MatchOption result (HasNoSpace text.now) (λ parts. IsCut text.now parts.0.now parts.1.now) }
{
    let mut place = 0;
    while place < text.len() {
        if text[place] == b' ' {
            return Some((text.split_at(place).0, text.split_at(place + 1).1));
        }
        place += 1;
    }
    None
}

/// The number of a session and a piece, with a space between them.
fn piece_of(rest: &[u8]) -> Option<(u8, &[u8])>
    ensures { MatchOption result ((n : ℕ) (digits : List ℕ) → n < 64 → IsHex digits → rest.now ≡ decimal n ++ 32 ∷ digits → ⊥)
        (λ p. (p.0 < 64) × IsHex p.1.now × (rest.now ≡ decimal p.0 ++ 32 ∷ p.1.now)) }
{
    let Some((number, digits)) = cut(rest) else {
        return None;
    };
    let Some(session) = session_of(number) else {
        return None;
    };
    if is_hex(digits) {
        Some((session, digits))
    } else {
        None
    }
}

/// The line with this first word and this rest.
fn line_of<'a>(word: &[u8], rest: &'a [u8]) -> Option<ScriptLine<'a>>
    ensures { MatchOption result (IsUnsplit word.now rest.now) (λ line. IsLine line × IsSplit word.now rest.now line) }
{
    if word == b"open".as_slice() {
        return Some(ScriptLine::Open(session_of(rest)?));
    }
    if word == b"bytes".as_slice() {
        let (session, digits) = piece_of(rest)?;
        return Some(ScriptLine::Bytes(session, digits));
    }
    if word == b"hangup".as_slice() {
        return Some(ScriptLine::Hangup(session_of(rest)?));
    }
    if word == b"message".as_slice() {
        return Some(ScriptLine::Message(rest));
    }
    if word == b"thin".as_slice() {
        return Some(ScriptLine::Thin(volume_of(rest)?));
    }
    None
}

/// The line of a script that a text is, without its newline: the command and its arguments, separated by one space. Numbers are decimal digits
/// without leading zeros; a piece has 1 to 8192 bytes, each in two digits of 0 to 9 and a to f. None where it is no line.
pub fn read_line(text: &[u8]) -> Option<ScriptLine<'_>>
    ensures { MatchOption result (IsNoLine text.now) (λ line. IsLine line × (text.now ≡ spelling line)) }
{
    if text.is_empty() {
        return Some(ScriptLine::Nothing);
    }
    if text == b"status".as_slice() {
        return Some(ScriptLine::Status);
    }
    let Some((word, rest)) = cut(text) else {
        return None;
    };
    line_of(word, rest)
}
