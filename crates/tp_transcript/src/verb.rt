//! The commands of a player.

use crate::streams::Reading;
use tp_script::number_of;

/// A command of a player on an image.
#[derive(Clone, Copy)]
pub enum ImageVerb<'a> {
    MakeFile(u64),
    MakeDevice(u64),
    Size,
    Byte(u64),
    /// The place of a byte, and its value.
    SetByte(u64, u8),
    Truncate(u64),
    Copy(&'a str),
    Compare(&'a str),
    Hold,
    Release,
    /// The first and the last disk call that fail.
    Fail(u64, u64),
    Crash,
}

/// A command.
#[derive(Clone, Copy)]
pub enum Verb<'a> {
    Thinpool,
    /// Whether standard input and standard error are terminals.
    Terminal(bool, bool),
    Input(Reading),
    /// The writes after which standard output fails.
    Output(Option<u64>),
    /// Writes standard input into a file.
    Write(&'a str),
    /// A command on an image.
    Image(&'a str, ImageVerb<'a>),
}

fn number_in(words: &[&str], place: usize) -> Option<u64> {
    number_of(words.get(place)?.as_bytes())
}

fn terminal_of<'a>(word: &str) -> Option<Verb<'a>> {
    match word.as_bytes() {
        b"none" => Some(Verb::Terminal(false, false)),
        b"errors" => Some(Verb::Terminal(false, true)),
        b"all" => Some(Verb::Terminal(true, true)),
        _ => None,
    }
}

fn input_of<'a>(word: &str) -> Option<Verb<'a>> {
    match word.as_bytes() {
        b"whole" => Some(Verb::Input(Reading::Whole)),
        b"by-byte" => Some(Verb::Input(Reading::ByByte)),
        b"breaks" => Some(Verb::Input(Reading::Breaks)),
        _ => None,
    }
}

fn output_of<'a>(word: &str, words: &[&str]) -> Option<Verb<'a>> {
    match word.as_bytes() {
        b"whole" => Some(Verb::Output(None)),
        b"breaks-after" => Some(Verb::Output(Some(number_in(words, 2)?))),
        _ => None,
    }
}

/// Returns the disk calls that fail: `N`, `N to M` or `N on`.
fn fail_of<'a>(words: &[&str]) -> Option<ImageVerb<'a>> {
    let first = number_in(words, 2)?;
    let last = match words.get(3) {
        None => first,
        Some(word) => {
            if word.as_bytes() == b"on".as_slice() {
                u64::MAX
            } else {
                number_in(words, 4)?
            }
        }
    };
    Some(ImageVerb::Fail(first, last))
}

/// Returns the byte that a `set-byte` sets, and its value.
fn set_byte_of<'a>(words: &[&str]) -> Option<ImageVerb<'a>> {
    let value = u8::try_from(number_in(words, 3)?).ok()?;
    Some(ImageVerb::SetByte(number_in(words, 2)?, value))
}

fn image_verb_of<'a>(words: &[&'a str]) -> Option<ImageVerb<'a>> {
    match words.first()?.as_bytes() {
        b"make-file" => Some(ImageVerb::MakeFile(number_in(words, 2)?)),
        b"make-device" => Some(ImageVerb::MakeDevice(number_in(words, 2)?)),
        b"size" => Some(ImageVerb::Size),
        b"byte" => Some(ImageVerb::Byte(number_in(words, 2)?)),
        b"set-byte" => set_byte_of(words),
        b"truncate" => Some(ImageVerb::Truncate(number_in(words, 2)?)),
        b"copy" => Some(ImageVerb::Copy(*words.get(2)?)),
        b"compare" => Some(ImageVerb::Compare(*words.get(2)?)),
        b"hold" => Some(ImageVerb::Hold),
        b"release" => Some(ImageVerb::Release),
        b"fail" => fail_of(words),
        b"crash" => Some(ImageVerb::Crash),
        _ => None,
    }
}

/// Returns the command that arguments name, if there is such a command.
pub fn verb_of<'a>(words: &[&'a str]) -> Option<Verb<'a>> {
    let name = *words.first()?;
    if name.as_bytes().ends_with(b"thinpool".as_slice()) {
        return Some(Verb::Thinpool);
    }
    let word = *words.get(1)?;
    match name.as_bytes() {
        b"terminal" => terminal_of(word),
        b"input" => input_of(word),
        b"output" => output_of(word, words),
        b"cat" => Some(Verb::Write(*words.get(2)?)),
        _ => Some(Verb::Image(word, image_verb_of(words)?)),
    }
}
