//! Random texts of clients, made of whole and of broken frames.

ghost use Rattle.std.specs.Prelude.{◌<◌};

use crate::frames::{Asked, add_fill, add_option, add_request};
use std::alloc::AllocError;

/// Numbers that look random: a linear congruential generator of 64 bits, of which the upper ones are taken.
#[derive(Drop)]
pub(crate) struct Random {
    state: u64,
}

impl Random {
    pub(crate) fn from(seed: u64) -> Random {
        Random { state: seed }
    }

    fn next(&mut self) -> u64 {
        self.state = self
            .state
            .wrapping_mul(6_364_136_223_846_793_005)
            .wrapping_add(1_442_695_040_888_963_407);
        self.state >> 33
    }

    /// A number below this one.
    pub(crate) fn below(&mut self, end: u64) -> u64
        requires { 0 < end }
        ensures { result < end }
    {
        self.next() % end
    }

    /// Whether something happens that does once in so many times.
    fn happens(&mut self, times: u64) -> bool
        requires { 0 < times }
    {
        self.below(times) == 0
    }

    /// Eight bits.
    fn byte(&mut self) -> u8 {
        self.below(256) as u8
    }
}

fn flags_of(random: &mut Random) -> u32 {
    match random.below(32) {
        0 => 0,
        1 => 2,
        2 => 4,
        3 => 0x8000_0001,
        4..=12 => 1,
        _ => 3,
    }
}

/// Names of which two are volumes'.
fn name_of(random: &mut Random) -> &'static [u8] {
    match random.below(16) {
        0 => b"",
        1 => b"00",
        2 => b"1",
        3 => b"16777216",
        4 => b"05",
        5 => b"5x",
        6..=10 => b"5",
        _ => b"0",
    }
}

/// A number below this one now and then, and else the one that is right.
fn mostly(random: &mut Random, end: u32, right: u32) -> u32
    requires { 0 < end }
{
    if random.happens(12) {
        random.below(end as u64) as u32
    } else {
        right
    }
}

/// Data of INFO and GO, mostly in their form.
fn add_name(random: &mut Random, text: &mut Vec<u8>) -> Result<(), AllocError> {
    let name = name_of(random);
    let types = random.below(4) as u16;
    let len = mostly(random, 20, (name.len() % 100) as u32);
    let bytes = mostly(random, 9, 2 * types as u32);
    text.extend_from_slice(&len.to_be_bytes())?;
    text.extend_from_slice(name)?;
    text.extend_from_slice(&types.to_be_bytes())?;
    add_fill(text, 3, bytes as usize)
}

/// The byte that fills the data of an option of this choice, and how many there are.
fn filling_of(random: &mut Random, choice: u64) -> (u8, u64) {
    match choice {
        0 => (0x30, random.below(3)),
        1..=3 | 17 => (0, 0),
        4 => (1, random.below(5)),
        16 => (7, 8100 + random.below(200)),
        _ => (random.byte(), random.below(40)),
    }
}

/// Its number.
fn option_of(random: &mut Random, choice: u64) -> u32 {
    match choice {
        0 => 2,
        1..=4 => 3,
        5..=9 => 6,
        10..=14 => 7,
        15 => 1,
        16 => 9,
        17 => random.below(4_000_000) as u32,
        _ => 4 + random.below(8) as u32,
    }
}

/// The data of an option of this choice.
fn add_data(random: &mut Random, payload: &mut Vec<u8>, choice: u64) -> Result<(), AllocError> {
    match choice {
        5..=14 => add_name(random, payload),
        15 => payload.extend_from_slice(name_of(random)),
        _ => {
            let (byte, count) = filling_of(random, choice);
            add_fill(payload, byte, count as usize)
        }
    }
}

/// The number of an option and its data, which come into `payload`.
fn choose_option(random: &mut Random, payload: &mut Vec<u8>) -> Result<u32, AllocError> {
    payload.clear();
    let choice = random.below(24);
    add_data(random, payload, choice)?;
    Ok(option_of(random, choice))
}

/// A length, mostly of whole sectors.
fn len_of(random: &mut Random) -> u32 {
    match random.below(32) {
        0 => 0,
        1 => random.below(3000) as u32,
        2 => 65_536,
        3 => 131_072,
        4 => 262_144,
        5 => 65_536 + 512 * random.below(200) as u32,
        6 => 1_048_576,
        7 => 1_048_577 + random.below(2000) as u32,
        8..=15 => 512 * random.below(140) as u32,
        _ => 512 * random.below(12) as u32,
    }
}

/// An offset, mostly of whole sectors and in the volume.
fn offset_of(random: &mut Random) -> u64 {
    match random.below(24) {
        0 => random.below(262_144),
        1 => 262_144,
        2 => 262_144 + 512 * random.below(20),
        3 => 0xffff_ffff_ffff_fe00,
        4 => 0xffff_ffff_ffff_ffff - random.below(1000),
        5..=10 => 65_536 * random.below(4),
        _ => 512 * random.below(512),
    }
}

fn kind_of(random: &mut Random) -> u16 {
    match random.below(32) {
        0 => 5,
        1 => 7 + random.below(60_000) as u16,
        2 => 2,
        3..=10 => 0,
        11..=14 => 4,
        15..=20 => 6,
        21..=23 => 3,
        _ => 1,
    }
}

fn request_flags_of(random: &mut Random) -> u16 {
    match random.below(16) {
        0 => random.below(65_536) as u16,
        1..=3 => 1,
        4..=6 => 2,
        7 => 3,
        _ => 0,
    }
}

/// Of a FLUSH offset and length are mostly 0.
fn choose_request(random: &mut Random) -> Asked {
    let mut asked = Asked {
        flags: request_flags_of(random),
        kind: kind_of(random),
        cookie: random.next(),
        offset: offset_of(random),
        len: len_of(random),
    };
    if asked.kind == 3 && !random.happens(6) {
        asked.offset = 0;
        asked.len = 0;
    }
    asked
}

/// Gives the bytes from a place on values each of which is so much more than the one before.
fn number_from(bytes: &mut [u8], at: usize, first: u8, step: u8) {
    let mut value = first;
    if let Some(part) = bytes.get_mut(at..) {
        for byte in part.iter_mut() {
            value = value.wrapping_add(step);
            *byte = value;
        }
    }
}

/// Adds bytes that are not all the same.
fn add_payload(random: &mut Random, text: &mut Vec<u8>, len: u32) -> Result<(), AllocError> {
    let begin = text.len();
    add_fill(text, 0, len as usize)?;
    number_from(text, begin, random.byte(), random.byte() | 1);
    Ok(())
}

fn add_random_request(random: &mut Random, text: &mut Vec<u8>) -> Result<(), AllocError> {
    let asked = choose_request(random);
    add_request(text, &asked)?;
    if asked.kind == 1 && asked.len <= 1_048_576 {
        add_payload(random, text, asked.len)?;
    }
    Ok(())
}

fn add_random_option(
    random: &mut Random,
    text: &mut Vec<u8>,
    payload: &mut Vec<u8>,
) -> Result<(), AllocError> {
    let option = choose_option(random, payload)?;
    add_option(text, option, payload)
}

/// The data of EXPORT_NAME, or of GO, of either volume.
fn data_of(is_export: bool, is_first: bool) -> &'static [u8] {
    match (is_export, is_first) {
        (true, true) => b"0",
        (true, false) => b"5",
        (false, true) => b"\0\0\0\x010\0\0",
        (false, false) => b"\0\0\0\x015\0\0",
    }
}

/// Adds an option by which a volume is chosen.
fn add_choice(random: &mut Random, text: &mut Vec<u8>) -> Result<(), AllocError> {
    let is_export = random.happens(4);
    let is_first = random.happens(2);
    let option = if is_export { 1 } else { 7 };
    add_option(text, option, data_of(is_export, is_first))
}

fn add_options(
    random: &mut Random,
    text: &mut Vec<u8>,
    payload: &mut Vec<u8>,
) -> Result<(), AllocError> {
    for _ in 0..random.below(4) {
        add_random_option(random, text, payload)?;
    }
    if random.happens(16) {
        Ok(())
    } else {
        add_choice(random, text)
    }
}

/// Breaks a text: a byte becomes another, or the end is cut off, or something stands behind it.
fn break_text(random: &mut Random, text: &mut Vec<u8>) -> Result<(), AllocError> {
    let place = random.below(text.len().saturating_add(1) as u64) as usize;
    match random.below(4) {
        0 | 1 => {
            if let Some(byte) = text.get_mut(place) {
                *byte ^= random.byte();
            }
            Ok(())
        }
        2 => {
            text.truncate(place);
            Ok(())
        }
        _ => add_fill(text, random.byte(), random.below(40) as usize),
    }
}

fn add_requests(random: &mut Random, text: &mut Vec<u8>) -> Result<(), AllocError> {
    for _ in 0..random.below(14) {
        add_random_request(random, text)?;
    }
    Ok(())
}

/// Adds what one client sends, whole.
fn add_whole(
    random: &mut Random,
    text: &mut Vec<u8>,
    payload: &mut Vec<u8>,
) -> Result<(), AllocError> {
    text.extend_from_slice(&flags_of(random).to_be_bytes())?;
    add_options(random, text, payload)?;
    add_requests(random, text)
}

/// Puts what one client sends into `text`; `payload` is room for the data of options.
pub(crate) fn make_text(
    random: &mut Random,
    text: &mut Vec<u8>,
    payload: &mut Vec<u8>,
) -> Result<(), AllocError> {
    text.clear();
    add_whole(random, text, payload)?;
    if random.happens(3) {
        break_text(random, text)
    } else {
        Ok(())
    }
}

/// The length of the next piece of a text.
pub(crate) fn piece_of(random: &mut Random) -> usize {
    let len = match random.below(8) {
        0 => 0,
        1 => random.below(5),
        2 => random.below(40),
        3 => random.below(700),
        _ => random.below(100_000),
    };
    (len as usize).saturating_add(1)
}
