//! How much of what a client sent is asked in one turn of it.

use crate::talk::{FLUSH, GO, LETTERS, READ, WRITE_HEAD, joined};
use crate::waiting::Seen;
use nbd_session::Profile;
use std::alloc::{AllocError, Global};
use std::marker::Brand;
use std::sync::Wait;
use std::test::Fail;
use tp_crowd::{HubLock, LockedDesk};
use tp_hub::{Answers, Desk, Event, Hub, Ran};
use tp_model::Refusal;
use tp_shelf::{Shelf, blank_shelf};

/// How many bytes a READ, a FLUSH and an option without data have, and a WRITE of a sector.
const SHORT: usize = 28;

const OPTION: usize = 16;

const LONG: usize = 28 + 512;

/// The client flags.
const FLAGS: &[u8] = b"\0\0\0\x03";

const LIST: &[u8] = b"IHAVEOPT\0\0\0\x03\0\0\0\0";

/// An option that the server does not know.
const UNKNOWN: &[u8] = b"IHAVEOPT\0\0\0\x63\0\0\0\0";

/// These parts, so many times.
fn repeated(alloc: Global, parts: &[&[u8]], times: u32) -> Result<Vec<u8>, AllocError> {
    let mut text = Vec::new(alloc);
    for _ in 0..times {
        text.append(&mut joined(alloc, parts)?)?;
    }
    Ok(text)
}

/// Asks a piece from this byte on.
fn ask_from<D: Desk>(desk: &mut D, piece: &[u8], from: usize, out: &mut Answers) -> Ran {
    desk.ask(Event::Bytes(0, piece.get(from..).unwrap_or(&[])), out)
}

/// What a client that sent something before and sends this is asked in each of three turns, which begin
/// at these bytes.
fn turns_of<H>(rt: &H, before: &[u8], text: &[u8], from: [usize; 3]) -> Result<[Ran; 3], Refusal>
where
    H: Wait + Sync + Alloc<A = Global>,
{
    let alarm = Seen::nothing();
    let hub = HubLock::<Shelf, Seen, Brand>::new(Hub::new(blank_shelf(rt.alloc())?), &alarm);
    let mut out = Answers::new(rt.alloc());
    let mut desk = LockedDesk {
        rt,
        alloc: rt.alloc(),
        hub: &hub,
    };
    desk.ask(Event::Open(0, Profile::Strict), &mut out);
    desk.ask(Event::Bytes(0, before), &mut out);
    Ok([
        ask_from(&mut desk, text, from[0], &mut out),
        ask_from(&mut desk, text, from[1], &mut out),
        ask_from(&mut desk, text, from[2], &mut out),
    ])
}

/// The same, where there was memory for what it sends.
fn turns_of_text<H>(
    rt: &H,
    before: &[u8],
    text: Result<Vec<u8>, AllocError>,
    from: [usize; 3],
) -> Result<[Ran; 3], Refusal>
where
    H: Wait + Sync + Alloc<A = Global>,
{
    match text {
        Ok(text) => turns_of(rt, before, &text, from),
        Err(_) => Err(Refusal::Memory),
    }
}

/// The events and the bytes of a turn that takes the rest of its piece.
const REST: (usize, usize) = (1, 0);

/// What a client sends before, what it sends behind that so often, the bytes at which three turns begin, and the events and bytes that each takes.
type Turns = (
    &'static [u8],
    &'static [&'static [u8]],
    u32,
    [usize; 3],
    [(usize, usize); 3],
);

/// A client that sends many READs, WRITEs or options at once has the hub for 16 of them, and then others may have it. A LIST, which tells of all volumes,
/// has a turn of its own, and so has a flush: one begins with it, so that others read while the device syncs, and ends with it, also if there is nothing
/// to sync.
const TURNS: [Turns; 5] = [
    (
        GO,
        &[READ],
        40,
        [0, 16 * SHORT, 32 * SHORT],
        [(0, 16 * SHORT), (0, 16 * SHORT), REST],
    ),
    (
        GO,
        &[WRITE_HEAD, LETTERS],
        40,
        [0, 16 * LONG, 32 * LONG],
        [(0, 16 * LONG), (0, 16 * LONG), REST],
    ),
    (
        FLAGS,
        &[UNKNOWN],
        40,
        [0, 16 * OPTION, 32 * OPTION],
        [(0, 16 * OPTION), (0, 16 * OPTION), REST],
    ),
    (
        FLAGS,
        &[UNKNOWN, LIST, LIST],
        1,
        [0, OPTION, 2 * OPTION],
        [(0, OPTION), (0, OPTION), REST],
    ),
    (
        GO,
        &[WRITE_HEAD, LETTERS, FLUSH, FLUSH, READ],
        1,
        [0, LONG, LONG + SHORT],
        [(0, LONG), (0, SHORT), (0, SHORT)],
    ),
];

/// The first of these that takes something else.
fn first_other_turns<H>(rt: &H) -> Result<Option<usize>, Refusal>
where
    H: Wait + Sync + Alloc<A = Global>,
{
    for (i, (before, parts, times, from, wanted)) in TURNS.iter().enumerate() {
        let text = repeated(rt.alloc(), parts, *times);
        let took = turns_of_text(rt, before, text, *from)?;
        if took.map(|ran| (ran.events, ran.bytes)) != *wanted {
            return Ok(Some(i));
        }
    }
    Ok(None)
}

#[test]
fn sixteen_requests_a_turn(rt: HostRuntime) -> Result<(), Fail> {
    let other = first_other_turns(&rt)?;
    assert_eq!(rt; other, None);
    Ok(())
}
