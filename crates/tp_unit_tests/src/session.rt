ghost use Rattle.std.specs.Prelude.{◌≡◌, ◌≤◌, [], IfOk, length};
ghost use Rattle.nbd_session.specs.Clauses.{HoldsBeside};

use crate::table::Table;
use nbd_session::{MAX_ANSWER, Profile, SHORT_ANSWER, Session, feed};
use std::alloc::{AllocError, Global};
use tp_model::{Cloned, Geometry, Refusal};

/// The client flags, and LIST.
const LIST: &[u8] = b"\0\0\0\x03IHAVEOPT\0\0\0\x03\0\0\0\0";

/// The client flags, and INFO of the volumes 9, 8 and 11.
const INFO: &[u8] = b"\0\0\0\x03\
IHAVEOPT\0\0\0\x06\0\0\0\x07\0\0\0\x019\0\0\
IHAVEOPT\0\0\0\x06\0\0\0\x07\0\0\0\x018\0\0\
IHAVEOPT\0\0\0\x06\0\0\0\x08\0\0\0\x0211\0\0";

/// The client flags, and GO of the volume 9, and ABORT.
const GO: &[u8] = b"\0\0\0\x03\
IHAVEOPT\0\0\0\x07\0\0\0\x07\0\0\0\x019\0\0\
IHAVEOPT\0\0\0\x02\0\0\0\0";

/// The client flags, and ABORT with data.
const ABORT: &[u8] = b"\0\0\0\x03IHAVEOPT\0\0\0\x02\0\0\0\x02ab";

/// What is sent for these bytes behind the greeting, until the client goes.
fn sent<V: Cloned>(alloc: Global, pool: &mut V, text: &[u8]) -> Result<Vec<u8>, Refusal>
    requires { HoldsBeside [] (V.view.outline pool.old).holds }
{
    let mut out = Vec::new(alloc);
    let mut session = Session::open(alloc, Profile::Strict)?;
    let fed = feed(&mut session, pool, text, &mut out);
    if fed.is_err() {
        return Err(Refusal::Memory);
    }
    session.leave(pool);
    Ok(out)
}

/// The same over so many volumes from an id on, in a read-only pool that tells of each that it has so many blocks, or refuses to.
fn told_of(
    alloc: Global,
    first: u32,
    count: u32,
    blocks: Option<u32>,
    text: &[u8],
) -> Result<Vec<u8>, Refusal> {
    let geometry = Geometry::new(128, 16, 2048, 4)?;
    let mut table = Table {
        geometry,
        first,
        count,
        blocks,
    };
    sent(alloc, &mut table, text)
}

/// The same of volumes of the pool's own size.
fn told(alloc: Global, first: u32, count: u32, text: &[u8]) -> Result<Vec<u8>, Refusal> {
    told_of(alloc, first, count, Some(16), text)
}

/// How many bytes were sent, or this refused.
fn length_of(sent: Result<Vec<u8>, Refusal>) -> Result<usize, Refusal> {
    match sent {
        Ok(sent) => Ok(sent.len()),
        Err(refusal) => Err(refusal),
    }
}

/// The lengths of the lists of as many volumes as a pool may have, each with a name of 8 digits, and of one more.
fn longest(alloc: Global) -> Result<(usize, usize), Refusal> {
    let most = length_of(told(alloc, 10_000_000, 65_536, LIST))?;
    let more = length_of(told(alloc, 10_000_000, 65_537, LIST))?;
    Ok((most, more))
}

/// The longest list fits. One of more, a refused size and a refused hold end the session.
#[test]
fn a_refused_hold_ends_the_session(rt: HostRuntime) {
    let alloc = rt.alloc();
    let size = length_of(told_of(alloc, 9, 2, None, INFO));
    let hold = length_of(told(alloc, 9, 2, GO));
    assert!(rt; (longest(alloc), size, hold) == (Ok((2_097_172, 0)), Ok(0), Ok(0)));
}

/// So many zero bytes.
fn zeroes(alloc: Global, len: usize) -> Result<Vec<u8>, AllocError>
    ensures { IfOk result (λ v. length v.items ≡ len) }
{
    vec![in alloc; 0u8; len]
}

/// What a session puts into a buffer of so many bytes that hears the client flags and one option.
/// `Memory` if the buffer has no room for the answer.
fn put<V: Cloned>(
    alloc: Global,
    pool: &mut V,
    text: &[u8],
    room: usize,
) -> Result<(Vec<u8>, usize), Refusal>
    requires ready { HoldsBeside [] (V.view.outline pool.old).holds }
    requires room { SHORT_ANSWER ≤ room }
{
    let Ok(mut out) = zeroes(alloc, room) else {
        return Err(Refusal::Memory);
    };
    let mut session = Session::open(alloc, Profile::Strict)?;
    let Some(flags) = session.step_into(pool, text, &mut out) else {
        return Err(Refusal::Memory);
    };
    let Some(option) = session.step_into(pool, &text[flags.taken..], &mut out) else {
        return Err(Refusal::Memory);
    };
    session.leave(pool);
    Ok((out, option.sent))
}

/// The same over two volumes from an id on.
fn put_in(alloc: Global, first: u32, text: &[u8], room: usize) -> Result<(Vec<u8>, usize), Refusal>
    requires { SHORT_ANSWER ≤ room }
{
    let geometry = Geometry::new(128, 16, 2048, 4)?;
    let mut table = Table {
        geometry,
        first,
        count: 2,
        blocks: Some(16),
    };
    put(alloc, &mut table, text, room)
}

/// Whether these bytes were put into a buffer, or this refused.
fn is_put(told: Result<(Vec<u8>, usize), Refusal>, wanted: &[u8]) -> Result<bool, Refusal> {
    match told {
        Ok((out, sent)) => Ok(out.get(..sent) == Some(wanted)),
        Err(refusal) => Err(refusal),
    }
}

#[test]
fn only_a_long_buffer_has_room_for_a_list(rt: HostRuntime) {
    let acknowledged = b"\0\x03\xe8\x89\x04\x55\x65\xa9\0\0\0\x02\0\0\0\x01\0\0\0\0";
    let list = b"\0\x03\xe8\x89\x04\x55\x65\xa9\0\0\0\x03\0\0\0\x02\0\0\0\x05\0\0\0\x019\
\0\x03\xe8\x89\x04\x55\x65\xa9\0\0\0\x03\0\0\0\x02\0\0\0\x06\0\0\0\x0210\
\0\x03\xe8\x89\x04\x55\x65\xa9\0\0\0\x03\0\0\0\x01\0\0\0\0";
    let put = [
        is_put(put_in(rt.alloc(), 9, ABORT, SHORT_ANSWER), acknowledged),
        is_put(put_in(rt.alloc(), 9, LIST, SHORT_ANSWER), b""),
        is_put(put_in(rt.alloc(), 9, LIST, MAX_ANSWER), list),
    ];
    assert!(rt; put == [Ok(true), Err(Refusal::Memory), Ok(true)]);
}
