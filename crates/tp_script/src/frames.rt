//! The bytes that clients send. Numbers have their highest byte first.

use crate::buffer::Buffer;
use crate::contents::add_fill;
use crate::line::{Operation, Request};
use crate::text::Words;

/// The cookie of a request that is sent in two halves.
pub const COOKIE_OF_HALVES: u64 = 77;

/// The most sectors of a WRITE whose payload is sent; the request's head may announce more.
const MOST_SECTORS: u64 = 4096;

fn add_u16(out: &mut Buffer, number: u16) {
    out.add(&number.to_be_bytes());
}

fn add_u32(out: &mut Buffer, number: u32) {
    out.add(&number.to_be_bytes());
}

/// Adds the length of a text that has fewer than 2^32 bytes.
fn add_len(out: &mut Buffer, len: usize) {
    add_u32(out, u32::try_from(len).unwrap_or(u32::MAX));
}

fn add_named(out: &mut Buffer, name: &[u8]) {
    add_len(out, name.len());
    out.add(name);
}

/// Adds an option with its data.
pub fn add_option(out: &mut Buffer, option: u32, data: &[u8]) {
    out.add(b"IHAVEOPT");
    add_u32(out, option);
    add_named(out, data);
}

/// Adds INFO (6) or GO (7) of this name, with no list of information types.
pub fn add_info_option(out: &mut Buffer, option: u32, name: &[u8]) {
    out.add(b"IHAVEOPT");
    add_u32(out, option);
    add_len(out, name.len().saturating_add(6));
    add_named(out, name);
    add_u16(out, 0);
}

/// Counts the words of a text, and the bytes that they take with a length before each.
fn count_names(names: &[u8]) -> (u32, usize) {
    let mut words = Words::of(names);
    let (mut count, mut len) = (0u32, 0usize);
    for _ in 0..names.len() {
        let name = words.next_word();
        if !name.is_empty() {
            count = count.saturating_add(1);
            len = len.saturating_add(4).saturating_add(name.len());
        }
    }
    (count, len)
}

fn add_names(out: &mut Buffer, names: &[u8]) {
    let mut words = Words::of(names);
    for _ in 0..names.len() {
        let name = words.next_word();
        if !name.is_empty() {
            add_named(out, name);
        }
    }
}

/// Adds LIST_META_CONTEXT (9) or SET_META_CONTEXT (10). `names`: the volume's name, then those of contexts.
pub fn add_contexts(out: &mut Buffer, option: u32, names: &[u8]) {
    let mut words = Words::of(names);
    let volume = words.next_word();
    let contexts = words.all();
    let (count, len) = count_names(contexts);
    out.add(b"IHAVEOPT");
    add_u32(out, option);
    add_len(out, len.saturating_add(8).saturating_add(volume.len()));
    add_named(out, volume);
    add_u32(out, count);
    add_names(out, contexts)
}

/// Adds the head of a request. `offset` and `len` are in bytes.
pub fn add_head(out: &mut Buffer, flags_and_type: (u16, u16), cookie: u64, offset: u64, len: u32) {
    out.add(&[0x25, 0x60, 0x95, 0x13]);
    add_u16(out, flags_and_type.0);
    add_u16(out, flags_and_type.1);
    out.add(&cookie.to_be_bytes());
    out.add(&offset.to_be_bytes());
    add_u32(out, len);
}

/// Returns the flags and the type of a request.
pub fn flags_of(operation: &Operation) -> (u16, u16) {
    match *operation {
        Operation::Read { df } => (if df { 4 } else { 0 }, 0),
        Operation::Write { fua, .. } => (fua as u16, 1),
        Operation::Trim { fua } => (fua as u16, 4),
        Operation::Zero { no_hole, fua } => (fua as u16 | if no_hole { 2 } else { 0 }, 6),
        Operation::Status { is_one } => (if is_one { 8 } else { 0 }, 7),
    }
}

/// Returns the bytes of this many sectors, at most what a request can announce.
pub fn length_of(count: u64) -> u32 {
    u32::try_from(count.saturating_mul(512)).unwrap_or(u32::MAX)
}

/// Adds a request, with its payload if it is a WRITE.
pub fn add_request(out: &mut Buffer, request: &Request, cookie: u64) {
    let offset = request.sector.saturating_mul(512);
    let len = length_of(request.count);
    add_head(out, flags_of(&request.operation), cookie, offset, len);
    if let Operation::Write { value, .. } = request.operation {
        add_fill(out, request.sector, request.count.min(MOST_SECTORS), value);
    }
}

/// Returns the number that `width` bytes spell, at most 8.
pub fn number_at(bytes: &[u8], at: usize, width: usize) -> u64 {
    let mut number: u64 = 0;
    for byte in bytes.get(at..).unwrap_or(&[]).iter().take(width) {
        number = number.wrapping_mul(256).wrapping_add(*byte as u64);
    }
    number
}
