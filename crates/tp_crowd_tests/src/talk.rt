//! What clients send, and how long the answers are.

use std::alloc::{AllocError, Global};

/// The client flags, and GO of volume 0.
pub(crate) const GO: &[u8] = b"\0\0\0\x03IHAVEOPT\0\0\0\x07\0\0\0\x07\0\0\0\x010\0\0";

/// The head of a write of sector 0, and its payload.
pub(crate) const WRITE_HEAD: &[u8] =
    b"\x25\x60\x95\x13\0\0\0\x01\0\0\0\0\0\0\0\x01\0\0\0\0\0\0\0\0\0\0\x02\0";

pub(crate) const LETTERS: &[u8] = &[0x61; 512];

/// These parts, one behind the other.
pub(crate) fn joined(alloc: Global, parts: &[&[u8]]) -> Result<Vec<u8>, AllocError> {
    let mut text = Vec::new(alloc);
    for part in parts {
        text.extend_from_slice(part)?;
    }
    Ok(text)
}

/// A write of sector 0.
pub(crate) fn write(alloc: Global) -> Result<Vec<u8>, AllocError> {
    joined(alloc, &[WRITE_HEAD, LETTERS])
}

/// The head of the same with FUA.
const KEPT_HEAD: &[u8] =
    b"\x25\x60\x95\x13\0\x01\0\x01\0\0\0\0\0\0\0\x01\0\0\0\0\0\0\0\0\0\0\x02\0";

/// A write of sector 0 with FUA.
pub(crate) fn kept_write(alloc: Global) -> Result<Vec<u8>, AllocError> {
    joined(alloc, &[KEPT_HEAD, LETTERS])
}

pub(crate) const READ: &[u8] =
    b"\x25\x60\x95\x13\0\0\0\0\0\0\0\0\0\0\0\x02\0\0\0\0\0\0\0\0\0\0\x02\0";

pub(crate) const FLUSH: &[u8] =
    b"\x25\x60\x95\x13\0\0\0\x03\0\0\0\0\0\0\0\x03\0\0\0\0\0\0\0\0\0\0\0\0";

const DISC: &[u8] = b"\x25\x60\x95\x13\0\0\0\x02\0\0\0\0\0\0\0\x04\0\0\0\0\0\0\0\0\0\0\0\0";

/// How many bytes a client is sent that is greeted, and goes to volume 0.
pub(crate) const ANSWERED_GO: u64 = 18 + 86;

/// The same of a client that then writes once.
pub(crate) const ANSWERED_WRITE: u64 = 18 + 86 + 16;

/// The same of a client that flushes once in place of it.
pub(crate) const ANSWERED_FLUSH: u64 = 18 + 86 + 16;

/// The same of a client that reads once in place of it.
pub(crate) const ANSWERED_READ: u64 = 18 + 86 + 528;

/// A whole session: GO, a write, a read of the same, a flush, and DISC.
pub(crate) fn session(alloc: Global) -> Result<Vec<u8>, AllocError> {
    joined(alloc, &[GO, WRITE_HEAD, LETTERS, READ, FLUSH, DISC])
}

/// What a client of that session is sent.
pub(crate) fn answers(alloc: Global) -> Result<Vec<u8>, AllocError> {
    joined(
        alloc,
        &[
            b"NBDMAGICIHAVEOPT\0\x03".as_slice(),
            b"\0\x03\xe8\x89\x04\x55\x65\xa9\0\0\0\x07\0\0\0\x03\0\0\0\x0c\0\0\0\0\0\0\0\x10\0\0\0\x6d",
            b"\0\x03\xe8\x89\x04\x55\x65\xa9\0\0\0\x07\0\0\0\x03\0\0\0\x0e\0\x03\0\0\x02\0\0\0\x10\0\0\x10\0\0",
            b"\0\x03\xe8\x89\x04\x55\x65\xa9\0\0\0\x07\0\0\0\x01\0\0\0\0",
            b"\x67\x44\x66\x98\0\0\0\0\0\0\0\0\0\0\0\x01",
            b"\x67\x44\x66\x98\0\0\0\0\0\0\0\0\0\0\0\x02",
            LETTERS,
            b"\x67\x44\x66\x98\0\0\0\0\0\0\0\0\0\0\0\x03",
        ],
    )
}
