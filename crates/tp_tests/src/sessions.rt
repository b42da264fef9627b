//! Each beginning of what a client sends.
ghost use Rattle.std.specs.Prelude.{◌≡◌, []};
ghost use Rattle.nbd_session.specs.Clauses.{HoldsBeside};

use crate::texts::{Part, joined};
use nbd_session::{Profile, Session, feed};
use std::alloc::{AllocError, Global};
use std::test::Fail;
use tp_disk::MemDisk;
use tp_meta::Meta;
use tp_model::{Cloned, DevId, Mode, Refusal};
use tp_pool::Pool;
use tp_samples::{MemPool, byte_at, example};

/// The client flags, and GO of volume 0.
const GO: &[u8] = b"\0\0\0\x03IHAVEOPT\0\0\0\x07\0\0\0\x07\0\0\0\x010\0\0";

/// The client flags, and LIST.
pub(crate) const LIST: &[u8] = b"\0\0\0\x03IHAVEOPT\0\0\0\x03\0\0\0\0";

/// What a session is sent that hears this and ends.
fn sent<V: Cloned>(alloc: Global, pool: &mut V, text: &[u8]) -> Result<Vec<u8>, Refusal>
    requires { HoldsBeside [] (V.view.outline pool.old).holds }
{
    let mut out = Vec::new(alloc);
    let mut session = Session::open(alloc, Profile::Strict)?;
    let fed = feed(&mut session, pool, text, &mut out);
    if fed.is_err() {
        return Err(Refusal::Memory);
    }
    session.leave(pool);
    Ok(out)
}

/// What is sent, and the mode behind it.
fn told<V: Cloned>(alloc: Global, pool: &mut V, text: &[u8]) -> Result<(Vec<u8>, Mode), Refusal>
    requires { HoldsBeside [] (V.view.outline pool.old).holds }
{
    let sent = sent(alloc, pool, text)?;
    Ok((sent, pool.mode()))
}

/// What is sent in a pool that is opened from a disk, and the pool behind it.
pub(crate) fn served(
    alloc: Global,
    disk: MemDisk,
    text: &[u8],
) -> Result<(Vec<u8>, MemPool), Refusal> {
    match Pool::<MemDisk, Meta>::open(alloc, disk) {
        Ok(pool) => {
            let mut pool = pool;
            let (sent, _) = told(alloc, &mut pool, text)?;
            Ok((sent, pool))
        }
        Err((refusal, _)) => Err(refusal),
    }
}

/// A client that chooses volume 0, writes a sector of bytes 61, reads it, flushes and goes.
fn first_text(alloc: Global) -> Result<Vec<u8>, AllocError> {
    joined(
        alloc,
        &[
            Part::Text(GO),
            Part::Text(b"\x25\x60\x95\x13\0\0\0\x01\0\0\0\0\0\0\0\x01\0\0\0\0\0\0\0\0\0\0\x02\0"),
            Part::Fill(0x61, 512),
            Part::Text(b"\x25\x60\x95\x13\0\0\0\0\0\0\0\0\0\0\0\x02\0\0\0\0\0\0\0\0\0\0\x02\0"),
            Part::Text(b"\x25\x60\x95\x13\0\0\0\x03\0\0\0\0\0\0\0\x03\0\0\0\0\0\0\0\0\0\0\0\0"),
            Part::Text(b"\x25\x60\x95\x13\0\0\0\x02\0\0\0\0\0\0\0\x04\0\0\0\0\0\0\0\0\0\0\0\0"),
        ],
    )
}

/// The place in it behind the WRITE.
const WRITTEN: usize = 567;

/// What a client is sent that goes behind this, and the byte that fills the first sector then.
fn begun(alloc: Global, text: &[u8]) -> Result<(Vec<u8>, Option<u8>), Refusal> {
    let mut pool = example(alloc)?;
    let (sent, _) = told(alloc, &mut pool, text)?;
    Ok((sent, byte_at(&mut pool, DevId::new(0), 0)?))
}

/// Whether a client that goes behind this is sent a beginning of these bytes, and the byte that fills the first sector then.
fn told_of_beginning(
    alloc: Global,
    text: &[u8],
    all: &[u8],
) -> Result<(bool, Option<u8>), Refusal> {
    let (sent, byte) = begun(alloc, text)?;
    Ok((all.starts_with(sent.as_slice()), byte))
}

/// Where the first beginning of a client's text ends behind which something else is told than should be, where these bytes are sent to who sends all of it.
fn first_wrong_of(alloc: Global, text: &[u8], all: &[u8]) -> Result<Option<usize>, Refusal> {
    for end in 0..text.len() {
        let wants = if end < WRITTEN { 0 } else { 0x61 };
        if told_of_beginning(alloc, &text[..end], all)? != (true, Some(wants)) {
            return Ok(Some(end));
        }
    }
    Ok(None)
}

/// The same of what is sent to one who does.
fn first_wrong_end(alloc: Global, text: &[u8]) -> Result<Option<usize>, Refusal> {
    let (all, _) = begun(alloc, text)?;
    first_wrong_of(alloc, text, &all)
}

/// The same of the first client's text.
fn first_wrong_end_of_first(alloc: Global) -> Result<Option<usize>, Refusal> {
    match first_text(alloc) {
        Ok(text) => first_wrong_end(alloc, &text),
        Err(_) => Err(Refusal::Memory),
    }
}

#[test]
fn every_beginning_of_a_session(rt: HostRuntime) -> Result<(), Fail> {
    assert_eq!(rt; first_wrong_end_of_first(rt.alloc()), Ok(None));
    Ok(())
}
