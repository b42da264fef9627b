//! Messages of NBD as a transcript spells them. Numbers have their highest byte first.

use crate::spelling::add_items;
use std::alloc::{AllocError, Global};
use tp_script::{Buffer, Words, add_head, add_option, cut_at, number_of};

fn number_u32(word: &[u8]) -> Option<u32> {
    u32::try_from(number_of(word)?).ok()
}

fn number_u16(word: &[u8]) -> Option<u16> {
    u16::try_from(number_of(word)?).ok()
}

/// Returns the number of an option.
fn option_of(word: &[u8]) -> Option<u32> {
    match word {
        b"export-name" => Some(1),
        b"abort" => Some(2),
        b"info" => Some(6),
        b"go" => Some(7),
        b"structured" => Some(8),
        b"list-contexts" => Some(9),
        b"set-contexts" => Some(10),
        _ => number_u32(word),
    }
}

/// Returns the number of a type of a reply to an option.
fn option_reply_of(word: &[u8]) -> Option<u32> {
    match word {
        b"ack" => Some(1),
        b"info" => Some(3),
        b"context" => Some(4),
        b"unsupported" => Some(0x8000_0001),
        b"invalid" => Some(0x8000_0003),
        b"unknown" => Some(0x8000_0006),
        _ => number_u32(word),
    }
}

/// Returns the number of a type of request.
fn request_of(word: &[u8]) -> Option<u16> {
    match word {
        b"read" => Some(0),
        b"write" => Some(1),
        b"disconnect" => Some(2),
        b"flush" => Some(3),
        b"trim" => Some(4),
        b"block-status" => Some(7),
        _ => number_u16(word),
    }
}

/// Returns the number of a type of chunk.
fn chunk_of(word: &[u8]) -> Option<u16> {
    match word {
        b"none" => Some(0),
        b"data" => Some(1),
        b"hole" => Some(2),
        b"block-status" => Some(5),
        b"error" => Some(0x8001),
        _ => number_u16(word),
    }
}

/// The head of a request, whose flags are 0 if they are not given.
#[derive(Clone, Copy)]
struct Head {
    flags: u16,
    kind: u16,
    cookie: u64,
    offset: u64,
    len: u32,
}

fn head_of(words: &mut Words<'_>) -> Option<Head> {
    let kind = request_of(words.next_word())?;
    let cookie = number_of(words.next_word())?;
    let offset = number_of(words.next_word())?;
    let len = number_u32(words.next_word())?;
    let flags = if words.is_empty() {
        0
    } else {
        number_u16(words.next_word())?
    };
    Some(Head {
        flags,
        kind,
        cookie,
        offset,
        len,
    })
}

fn add_request(out: &mut Buffer, text: &[u8]) -> bool {
    let mut words = Words::of(text);
    match head_of(&mut words) {
        Some(head) => {
            let flags_and_kind = (head.flags, head.kind);
            add_head(out, flags_and_kind, head.cookie, head.offset, head.len);
            words.is_empty()
        }
        None => false,
    }
}

/// Adds a simple reply. `text`: its error and cookie.
fn add_reply(out: &mut Buffer, text: &[u8]) -> bool {
    let mut words = Words::of(text);
    let (error, cookie) = (number_u32(words.next_word()), number_of(words.next_word()));
    match (error, cookie) {
        (Some(error), Some(cookie)) => {
            out.add(&[0x67, 0x44, 0x66, 0x98]);
            out.add(&error.to_be_bytes());
            out.add(&cookie.to_be_bytes());
            words.is_empty()
        }
        _ => false,
    }
}

fn add_client_option(out: &mut Buffer, text: &[u8]) -> bool {
    let mut words = Words::of(text);
    let Some(option) = option_of(words.next_word()) else {
        return false;
    };
    let mut payload = Buffer::new(out.alloc());
    let is_spelled = add_items(&mut payload, words.all());
    add_option(out, option, payload.as_slice());
    is_spelled && payload.is_whole()
}

/// Adds the length of a payload, and the payload.
fn add_payload(out: &mut Buffer, payload: &[u8]) {
    let len = u32::try_from(payload.len()).unwrap_or(u32::MAX);
    out.add(&len.to_be_bytes());
    out.add(payload);
}

fn add_option_reply(out: &mut Buffer, text: &[u8]) -> bool {
    let mut words = Words::of(text);
    let (option, kind) = (
        option_of(words.next_word()),
        option_reply_of(words.next_word()),
    );
    let (Some(option), Some(kind)) = (option, kind) else {
        return false;
    };
    let mut payload = Buffer::new(out.alloc());
    let is_spelled = add_items(&mut payload, words.all());
    out.add(&[0x00, 0x03, 0xe8, 0x89, 0x04, 0x55, 0x65, 0xa9]);
    out.add(&option.to_be_bytes());
    out.add(&kind.to_be_bytes());
    add_payload(out, payload.as_slice());
    is_spelled && payload.is_whole()
}

/// Adds a chunk of a structured reply. `flags`: 1 for the last chunk, 0 for the others.
fn add_chunk(out: &mut Buffer, flags: u16, text: &[u8]) -> bool {
    let mut words = Words::of(text);
    let (kind, cookie) = (chunk_of(words.next_word()), number_of(words.next_word()));
    let (Some(kind), Some(cookie)) = (kind, cookie) else {
        return false;
    };
    let mut payload = Buffer::new(out.alloc());
    let is_spelled = add_items(&mut payload, words.all());
    out.add(&[0x66, 0x8e, 0x33, 0xef]);
    out.add(&flags.to_be_bytes());
    out.add(&kind.to_be_bytes());
    out.add(&cookie.to_be_bytes());
    add_payload(out, payload.as_slice());
    is_spelled && payload.is_whole()
}

fn add_message(out: &mut Buffer, line: &[u8]) -> bool {
    let (word, rest) = cut_at(line, b' ');
    let text = rest.unwrap_or(b"");
    match word {
        b"bytes" => add_items(out, text),
        b"request" => add_request(out, text),
        b"option" => add_client_option(out, text),
        b"reply" => add_reply(out, text),
        b"option-reply" => add_option_reply(out, text),
        b"chunk" => add_chunk(out, 0, text),
        b"last-chunk" => add_chunk(out, 1, text),
        _ => false,
    }
}

/// Adds the bytes that a line spells after its `<` or `>`. Returns whether it spells any.
pub(crate) fn add_bytes(alloc: Global, out: &mut Vec<u8>, line: &[u8]) -> Result<bool, AllocError> {
    let mut made = Buffer::new(alloc);
    let is_spelled = add_message(&mut made, line);
    out.extend_from_slice(made.as_slice())?;
    Ok(is_spelled && made.is_whole())
}
