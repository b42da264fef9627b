//! Words and numbers of a line.

use crate::buffer::Buffer;

/// Splits a text at the first of these bytes: the text before it, and the text after it if there is such a byte.
pub fn cut_at(text: &[u8], byte: u8) -> (&[u8], Option<&[u8]>) {
    for place in 0..text.len() {
        if text[place] == byte {
            let rest = text.get(place.saturating_add(1)..);
            return (text.get(..place).unwrap_or(b""), rest);
        }
    }
    (text, None)
}

/// Splits a text at the first place where this mark is: the text before it and after it, without spaces at their ends. Returns
/// the whole text and an empty one if there is no mark.
pub(crate) fn cut_at_mark<'a>(text: &'a [u8], mark: &[u8]) -> (&'a [u8], &'a [u8]) {
    for place in 0..text.len() {
        let (before, rest) = text.split_at(place);
        if let Some(after) = rest.strip_prefix(mark) {
            return (trim(before), trim(after));
        }
    }
    (text, b"")
}

/// Returns the text without spaces at its beginning.
fn trim_start(text: &[u8]) -> &[u8] {
    for place in 0..text.len() {
        if text[place] != b' ' {
            return text.get(place..).unwrap_or(b"");
        }
    }
    b""
}

/// Returns the text without spaces at both ends.
pub(crate) fn trim(text: &[u8]) -> &[u8] {
    let text = trim_start(text);
    let mut end: usize = 0;
    for place in 0..text.len() {
        if text[place] != b' ' {
            end = place.saturating_add(1);
        }
    }
    text.get(..end).unwrap_or(b"")
}

/// Returns a word as text, and `?` for one that is not UTF-8. A pattern of text is proved in one step, one of bytes byte by byte.
fn name_of(word: &[u8]) -> &str {
    str::from_utf8(word).unwrap_or("?")
}

/// The words of a line, taken from the front. They are refused once one of them is not what it must be.
#[derive(Clone, Copy)]
pub struct Words<'a> {
    rest: &'a [u8],
    is_refused: bool,
}

impl<'a> Words<'a> {
    pub fn of(text: &'a [u8]) -> Words<'a> {
        Words {
            rest: trim(text),
            is_refused: false,
        }
    }

    pub(crate) fn refuse(&mut self) {
        self.is_refused = true;
    }

    pub(crate) fn refuse_unless(&mut self, is_right: bool) {
        self.is_refused = self.is_refused || !is_right;
    }

    /// Takes the next word, which is empty after the last one.
    pub fn next_word(&mut self) -> &'a [u8] {
        let (word, rest) = cut_at(self.rest, b' ');
        self.rest = trim_start(rest.unwrap_or(b""));
        word
    }

    /// Takes the next word as text.
    pub(crate) fn next_name(&mut self) -> &'a str {
        name_of(self.next_word())
    }

    /// Takes all words that are left, as one text.
    pub fn all(&mut self) -> &'a [u8] {
        let rest = self.rest;
        self.rest = b"";
        rest
    }

    pub fn is_empty(&self) -> bool {
        self.rest.is_empty()
    }

    /// Returns whether no word is left, and none was refused.
    pub(crate) fn is_ended(&self) -> bool {
        self.rest.is_empty() && !self.is_refused
    }

    /// Takes the next word, which must be a number up to this one.
    fn number_up_to(&mut self, most: u64) -> u64 {
        match number_of(self.next_word()) {
            Some(number) if number <= most => number,
            _ => {
                self.refuse();
                0
            }
        }
    }

    /// Takes the next word, which must be a number.
    pub(crate) fn number(&mut self) -> u64 {
        self.number_up_to(u64::MAX)
    }

    /// Takes the next word, which must be the number of a volume or of a block.
    pub(crate) fn id(&mut self) -> u32 {
        u32::try_from(self.number_up_to(u32::MAX as u64)).unwrap_or(0)
    }

    /// Takes the next word, which must be a number of one byte.
    pub(crate) fn byte(&mut self) -> u8 {
        u8::try_from(self.number_up_to(u8::MAX as u64)).unwrap_or(0)
    }

    /// Takes the next three words, which must be numbers.
    pub(crate) fn three_numbers(&mut self) -> [u64; 3] {
        [self.number(), self.number(), self.number()]
    }

    /// Takes the next four words, which must be numbers.
    pub(crate) fn four_numbers(&mut self) -> [u64; 4] {
        [self.number(), self.number(), self.number(), self.number()]
    }

    /// Takes the next word if it is this one.
    pub(crate) fn take(&mut self, name: &str) -> bool {
        let mut after = *self;
        let is_next = after.next_name() == name;
        if is_next {
            *self = after;
        }
        is_next
    }

    /// Takes the next word, which must be this one.
    pub(crate) fn expect(&mut self, name: &str) {
        let is_next = self.take(name);
        self.refuse_unless(is_next);
    }
}

fn digit_of(byte: u8) -> Option<u64> {
    match byte {
        b'0'..=b'9' => Some((byte - b'0') as u64),
        b'a'..=b'f' => Some((byte - b'a') as u64 + 10),
        _ => None,
    }
}

fn number_in(digits: &[u8], base: u64) -> Option<u64> {
    if digits.is_empty() {
        return None;
    }
    let mut number: u64 = 0;
    for byte in digits {
        let digit = digit_of(*byte)?;
        if digit >= base {
            return None;
        }
        number = number.checked_mul(base)?.checked_add(digit)?;
    }
    Some(number)
}

/// Returns the number that a word spells: decimal digits, or `0x` and hexadecimal digits.
pub fn number_of(word: &[u8]) -> Option<u64> {
    match word.strip_prefix(b"0x".as_slice()) {
        Some(digits) => number_in(digits, 16),
        None => number_in(word, 10),
    }
}

/// Returns the byte that two hexadecimal digits spell.
fn byte_of(high: u8, low: u8) -> Option<u8> {
    let high = digit_of(high)?;
    let low = digit_of(low)?;
    u8::try_from(high.saturating_mul(16).saturating_add(low)).ok()
}

/// Adds the bytes that a text spells: two hexadecimal digits each, or the bytes between quotation marks. Spaces between digits
/// have no meaning, and other bytes count as a digit 0.
pub fn add_spelled(out: &mut Buffer, text: &[u8]) {
    let mut is_quoted = false;
    let mut high = None;
    for byte in text {
        match (*byte, high) {
            (b'"', _) => is_quoted = !is_quoted,
            (byte, _) if is_quoted => out.add_byte(byte),
            (b' ', _) => {}
            (byte, None) => high = Some(byte),
            (byte, Some(first)) => {
                out.add_byte(byte_of(first, byte).unwrap_or(0));
                high = None;
            }
        }
    }
}

/// Returns the text between quotation marks, and a text without them as it is.
pub(crate) fn unquoted(text: &[u8]) -> &[u8] {
    match text.strip_prefix(b"\"".as_slice()) {
        Some(rest) => rest.strip_suffix(b"\"".as_slice()).unwrap_or(text),
        None => text,
    }
}

fn hex_digit(value: u8) -> u8 {
    match value % 16 {
        digit @ 0..=9 => b'0' + digit,
        digit => b'a' + (digit - 10),
    }
}

/// Adds two hexadecimal digits for each byte.
pub fn add_hex_of(out: &mut Buffer, bytes: &[u8]) {
    for byte in bytes {
        out.add_byte(hex_digit(*byte / 16));
        out.add_byte(hex_digit(*byte));
    }
}
