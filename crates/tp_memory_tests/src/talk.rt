//! What a client sends, and what it is sent.

use std::alloc::{AllocError, Global};

/// The client flags, and GO of volume 0.
pub(crate) const GO: &[u8] = b"\0\0\0\x03IHAVEOPT\0\0\0\x07\0\0\0\x07\0\0\0\x010\0\0";

/// The head of a write of sector 0.
const WRITE_HEAD: &[u8] = b"\x25\x60\x95\x13\0\0\0\x01\0\0\0\0\0\0\0\x01\0\0\0\0\0\0\0\0\0\0\x02\0";

const LETTERS: &[u8] = &[0x61; 512];

/// A read of sector 0.
pub(crate) const READ: &[u8] =
    b"\x25\x60\x95\x13\0\0\0\0\0\0\0\0\0\0\0\x02\0\0\0\0\0\0\0\0\0\0\x02\0";

const FLUSH: &[u8] = b"\x25\x60\x95\x13\0\0\0\x03\0\0\0\0\0\0\0\x03\0\0\0\0\0\0\0\0\0\0\0\0";

const DISC: &[u8] = b"\x25\x60\x95\x13\0\0\0\x02\0\0\0\0\0\0\0\x04\0\0\0\0\0\0\0\0\0\0\0\0";

/// How many bytes a client is sent that is greeted, goes to volume 0 and reads a sector of zeros, and how many of them are the letter.
pub(crate) const ANSWERED_BLANK: (u64, u64) = (18 + 86 + 528, 0);

const GREETING: &[u8] = b"NBDMAGICIHAVEOPT\0\x03";

/// INFO_EXPORT, INFO_BLOCK_SIZE and ACK.
const GO_REPLIES: [&[u8]; 3] = [
    b"\0\x03\xe8\x89\x04\x55\x65\xa9\0\0\0\x07\0\0\0\x03\0\0\0\x0c\0\0\0\0\0\0\0\x10\0\0\0\x6d",
    b"\0\x03\xe8\x89\x04\x55\x65\xa9\0\0\0\x07\0\0\0\x03\0\0\0\x0e\0\x03\0\0\x02\0\0\0\x10\0\0\x10\0\0",
    b"\0\x03\xe8\x89\x04\x55\x65\xa9\0\0\0\x07\0\0\0\x01\0\0\0\0",
];

/// The replies to a write, a read and a flush.
const DONE: [&[u8]; 3] = [
    b"\x67\x44\x66\x98\0\0\0\0\0\0\0\0\0\0\0\x01",
    b"\x67\x44\x66\x98\0\0\0\0\0\0\0\0\0\0\0\x02",
    b"\x67\x44\x66\x98\0\0\0\0\0\0\0\0\0\0\0\x03",
];

/// Adds these parts, one behind the other.
fn add(text: &mut Vec<u8>, parts: &[&[u8]]) -> Result<(), AllocError> {
    for part in parts {
        text.extend_from_slice(part)?;
    }
    Ok(())
}

/// The same so often.
fn add_often(text: &mut Vec<u8>, parts: &[&[u8]], count: usize) -> Result<(), AllocError> {
    for _ in 0..count {
        add(text, parts)?;
    }
    Ok(())
}

/// These parts, one behind the other.
fn joined(alloc: Global, parts: &[&[u8]]) -> Result<Vec<u8>, AllocError> {
    let mut text = Vec::new(alloc);
    add(&mut text, parts)?;
    Ok(text)
}

/// The same, and behind them others so often.
fn repeated(
    alloc: Global,
    begin: &[&[u8]],
    parts: &[&[u8]],
    count: usize,
) -> Result<Vec<u8>, AllocError> {
    let mut text = joined(alloc, begin)?;
    add_often(&mut text, parts, count)?;
    Ok(text)
}

/// A whole session: GO, a write, a read of the same, a flush, and DISC.
fn session(alloc: Global) -> Result<Vec<u8>, AllocError> {
    joined(alloc, &[GO, WRITE_HEAD, LETTERS, READ, FLUSH, DISC])
}

/// What a client of that session is sent.
fn answers(alloc: Global) -> Result<Vec<u8>, AllocError> {
    let [export, sizes, ack] = GO_REPLIES;
    let [written, read, flushed] = DONE;
    let parts = [
        GREETING, export, sizes, ack, written, read, LETTERS, flushed,
    ];
    joined(alloc, &parts)
}

/// That session, and what its client is sent.
pub(crate) fn session_texts(alloc: Global) -> Result<(Vec<u8>, Vec<u8>), AllocError> {
    let text = session(alloc)?;
    let wanted = answers(alloc)?;
    Ok((text, wanted))
}

/// How many reads of a sector are asked for at once, so that the room for answers grows again and again.
pub(crate) const READS: usize = 40;

/// GO, and so many reads of a sector.
fn reads(alloc: Global, count: usize) -> Result<Vec<u8>, AllocError> {
    repeated(alloc, &[GO], &[READ], count)
}

/// What a client of these reads is sent.
fn answers_to_reads(alloc: Global, count: usize) -> Result<Vec<u8>, AllocError> {
    let [export, sizes, ack] = GO_REPLIES;
    let begin = [GREETING, export, sizes, ack];
    repeated(alloc, &begin, &[DONE[1], LETTERS], count)
}

/// These reads, and what their client is sent.
pub(crate) fn texts_of_reads(
    alloc: Global,
    count: usize,
) -> Result<(Vec<u8>, Vec<u8>), AllocError> {
    let text = reads(alloc, count)?;
    let wanted = answers_to_reads(alloc, count)?;
    Ok((text, wanted))
}
