//! What clients send, frame by frame.

use std::alloc::AllocError;

/// The types of requests.
pub(crate) const READ: u16 = 0;

pub(crate) const WRITE: u16 = 1;

pub(crate) const DISC: u16 = 2;

pub(crate) const FLUSH: u16 = 3;

/// The client flags 3, and GO of volume 0.
const GO: &[u8] = b"\0\0\0\x03IHAVEOPT\0\0\0\x07\0\0\0\x07\0\0\0\x010\0\0";

/// A request without its payload.
#[derive(Clone, Copy)]
pub(crate) struct Asked {
    pub(crate) flags: u16,
    pub(crate) kind: u16,
    pub(crate) cookie: u64,
    pub(crate) offset: u64,
    pub(crate) len: u32,
}

/// Adds a request: the magic, the flags and the kind are one number of eight bytes.
pub(crate) fn add_request(text: &mut Vec<u8>, asked: &Asked) -> Result<(), AllocError> {
    let head = 0x2560_9513_0000_0000 | 0x1_0000 * asked.flags as u64 | asked.kind as u64;
    text.extend_from_slice(&head.to_be_bytes())?;
    text.extend_from_slice(&asked.cookie.to_be_bytes())?;
    text.extend_from_slice(&asked.offset.to_be_bytes())?;
    text.extend_from_slice(&asked.len.to_be_bytes())
}

/// Adds so many bytes of this value.
pub(crate) fn add_fill(text: &mut Vec<u8>, byte: u8, count: usize) -> Result<(), AllocError> {
    text.resize(text.len().saturating_add(count), byte)
}

pub(crate) fn add_option(
    text: &mut Vec<u8>,
    option: u32,
    payload: &[u8],
) -> Result<(), AllocError> {
    let head = 0x1_0000_0000 * option as u64 | (payload.len() % 65_536) as u64;
    text.extend_from_slice(b"IHAVEOPT")?;
    text.extend_from_slice(&head.to_be_bytes())?;
    text.extend_from_slice(payload)
}

/// What the program's first client sends: it chooses volume 0, writes a sector of bytes 61, reads it, flushes and goes.
pub(crate) fn add_first(text: &mut Vec<u8>) -> Result<(), AllocError> {
    let mut asked = Asked {
        flags: 1,
        kind: WRITE,
        cookie: 1,
        offset: 0,
        len: 512,
    };
    text.extend_from_slice(GO)?;
    add_request(text, &asked)?;
    add_fill(text, 0x61, 512)?;
    asked.flags = 0;
    asked.kind = READ;
    asked.cookie = 2;
    add_request(text, &asked)?;
    asked.kind = FLUSH;
    asked.cookie = 3;
    asked.len = 0;
    add_request(text, &asked)?;
    asked.kind = DISC;
    asked.cookie = 4;
    add_request(text, &asked)
}
