//! What clients send, and hubs for them.

use std::alloc::{AllocError, Global};
use tp_hub::{Hub, Mark};
use tp_model::Refusal;
use tp_shelf::{Shelf, blank_shelf, wide_shelf};

/// The client flags, and GO of volume 0, and of volume 1.
pub(crate) const GO_0: &[u8] = b"\0\0\0\x03IHAVEOPT\0\0\0\x07\0\0\0\x07\0\0\0\x010\0\0";

pub(crate) const GO_1: &[u8] = b"\0\0\0\x03IHAVEOPT\0\0\0\x07\0\0\0\x07\0\0\0\x011\0\0";

/// The head of a write of sector 0, a read of it, a read of 1 MiB, and DISC.
pub(crate) const WRITE: &[u8] =
    b"\x25\x60\x95\x13\0\0\0\x01\0\0\0\0\0\0\0\x01\0\0\0\0\0\0\0\0\0\0\x02\0";

pub(crate) const READ: &[u8] =
    b"\x25\x60\x95\x13\0\0\0\0\0\0\0\0\0\0\0\x02\0\0\0\0\0\0\0\0\0\0\x02\0";

const READ_ALL: &[u8] = b"\x25\x60\x95\x13\0\0\0\0\0\0\0\0\0\0\0\x03\0\0\0\0\0\0\0\0\0\x10\0\0";

pub(crate) const DISC: &[u8] =
    b"\x25\x60\x95\x13\0\0\0\x02\0\0\0\0\0\0\0\x04\0\0\0\0\0\0\0\0\0\0\0\0";

/// A read of sector 1.
const READ_NEXT: &[u8] = b"\x25\x60\x95\x13\0\0\0\0\0\0\0\0\0\0\0\x02\0\0\0\0\0\0\x02\0\0\0\x02\0";

/// Half a payload.
pub(crate) const HALF: &[u8] = &[0x61; 256];

/// Half of another one.
const OTHER_HALF: &[u8] = &[0x62; 256];

/// How long the greeting is, and the replies to GO, to a write, to a read of a sector, and to one of 1 MiB.
pub(crate) const GREETED: usize = 18;

pub(crate) const GONE: usize = 86;

pub(crate) const DONE: usize = 16;

pub(crate) const GIVEN: usize = 528;

pub(crate) const ALL_GIVEN: usize = 1048592;

/// These parts, one behind the other.
fn joined(alloc: Global, parts: &[&[u8]]) -> Result<Vec<u8>, AllocError> {
    let mut talk = Vec::new(alloc);
    for part in parts {
        talk.extend_from_slice(part)?;
    }
    Ok(talk)
}

/// A beginning, and behind it a part so often.
pub(crate) fn repeated(
    alloc: Global,
    begin: &[u8],
    part: &[u8],
    count: usize,
) -> Result<Vec<u8>, AllocError> {
    let mut talk = Vec::from_slice(alloc, begin)?;
    for _ in 0..count {
        talk.extend_from_slice(part)?;
    }
    Ok(talk)
}

/// GO, a write of sector 0, a read of it, DISC, and bytes that nobody is to read.
pub(crate) fn one_talk(alloc: Global) -> Result<Vec<u8>, AllocError> {
    joined(alloc, &[GO_0, WRITE, HALF, HALF, READ, DISC, READ])
}

/// How many bytes of it a session reads.
pub(crate) const HEARD: usize = 4 + 16 + 7 + 28 + 512 + 28 + 28;

/// How many bytes answer it.
pub(crate) const ANSWERED: u64 = 648;

/// GO, and so many reads of 1 MiB.
pub(crate) fn reads(alloc: Global, count: usize) -> Result<Vec<u8>, AllocError> {
    repeated(alloc, GO_0, READ_ALL, count)
}

/// So many reads of 1 MiB without GO, each with its number from 0 on.
pub(crate) fn numbered_reads(alloc: Global, count: usize) -> Result<Vec<u8>, AllocError> {
    let mut talk = repeated(alloc, b"", READ_ALL, count)?;
    for number in 0..count {
        let place = number.saturating_mul(READ_ALL.len()).saturating_add(15);
        if let Some(byte) = talk.get_mut(place) {
            *byte = u8::try_from(number).unwrap_or(u8::MAX);
        }
    }
    Ok(talk)
}

/// A read of sector 0 and one of sector 1, and a write of sector 0.
pub(crate) fn reads_and_a_write(alloc: Global) -> Result<Vec<u8>, AllocError> {
    joined(alloc, &[READ, READ_NEXT, WRITE, OTHER_HALF, OTHER_HALF])
}

/// How many reads of 1 MiB 256 KiB ask for.
pub(crate) const READS_IN_A_PIECE: usize = 262144 / 28;

/// So many bytes that a session is sent.
pub(crate) fn sent(session: u8, len: usize) -> Mark {
    Mark::Sent { session, len }
}

/// An event that is refused.
pub(crate) fn refused(reason: Refusal) -> Mark {
    Mark::Refused { reason }
}

/// A hub over two volumes of zeros.
pub(crate) fn blank_hub(alloc: Global) -> Result<Hub<Shelf>, Refusal> {
    Ok(Hub::new(blank_shelf(alloc)?))
}

/// The same, whose volumes have 4 MiB each.
pub(crate) fn wide_hub(alloc: Global) -> Result<Hub<Shelf>, Refusal> {
    Ok(Hub::new(wide_shelf(alloc)?))
}
