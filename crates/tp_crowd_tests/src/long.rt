//! Long requests over the lock.

use crate::talk::{GO, READ};
use crate::waiting::Seen;
use nbd_session::Profile;
use std::alloc::{AllocError, Global};
use std::marker::Brand;
use std::sync::Wait;
use std::test::Fail;
use tp_crowd::{HubLock, LockedDesk};
use tp_hub::{Answers, Desk, Event, Hub, Mark, Ran};
use tp_model::Refusal;
use tp_shelf::{Shelf, wide_shelf};

/// A TRIM of 3 MiB from the second block on, which has three parts and a block of another.
const TRIM: &[u8] = b"\x25\x60\x95\x13\0\0\0\x04\0\0\0\0\0\0\0\x05\0\0\0\0\0\x01\0\0\0\x30\0\0";

/// That TRIM between two reads.
fn read_trim_read(alloc: Global) -> Result<Vec<u8>, AllocError> {
    let mut text = Vec::new(alloc);
    for part in [READ, TRIM, READ] {
        text.extend_from_slice(part)?;
    }
    Ok(text)
}

/// What is asked of this text by session 1 in three asks, each from where the one before it ended,
/// and whether the marks of two reads' replies with one between them were given.
fn ask_all<H>(rt: &H, hub: &HubLock<'_, Shelf, Seen, Brand>, text: &[u8]) -> ([Ran; 3], bool)
where
    H: Wait + Sync + Alloc<A = Global>,
{
    let mut out = Answers::new(rt.alloc());
    let mut desk = LockedDesk {
        rt,
        alloc: rt.alloc(),
        hub,
    };
    desk.ask(Event::Open(1, Profile::Extended), &mut out);
    desk.ask(Event::Bytes(1, GO), &mut out);
    out.clear();
    let took = [
        desk.ask(Event::Bytes(1, text), &mut out),
        desk.ask(Event::Bytes(1, text.get(28..).unwrap_or(&[])), &mut out),
        desk.ask(Event::Bytes(1, text.get(56..).unwrap_or(&[])), &mut out),
    ];
    let marks = [sent(528), sent(16), sent(528)];
    (took, out.marks() == marks.as_slice())
}

/// An answer of so many bytes.
fn sent(len: usize) -> Mark {
    Mark::Sent { session: 1, len }
}

/// The same of a lock of its own, and how many trims were made behind it.
fn told_of<H>(rt: &H, text: &[u8]) -> Result<([Ran; 3], bool, u64), Refusal>
where
    H: Wait + Sync + Alloc<A = Global>,
{
    let alarm = Seen::nothing();
    let hub = HubLock::<Shelf, Seen, Brand>::new(Hub::new(wide_shelf(rt.alloc())?), &alarm);
    let (took, is_marked) = ask_all(rt, &hub, text);
    Ok((took, is_marked, hub.into_inner().into_pool().cleared()))
}

/// The same of that text.
fn told_of_trim<H>(rt: &H) -> Result<([Ran; 3], bool, u64), Refusal>
where
    H: Wait + Sync + Alloc<A = Global>,
{
    match read_trim_read(rt.alloc()) {
        Ok(text) => told_of(rt, &text),
        Err(_) => Err(Refusal::Memory),
    }
}

/// Some bytes of a piece.
fn part(bytes: usize) -> Ran {
    Ran { events: 0, bytes }
}

/// One ask makes all parts of a long request, and answers it once; what stands before and behind it is asked by asks of its own.
#[test]
fn a_long_trim_is_made_whole(rt: HostRuntime) -> Result<(), Fail> {
    let (took, is_marked, cleared) = told_of_trim(&rt)?;
    let rest = Ran {
        events: 1,
        bytes: 0,
    };
    assert!(rt; (took, is_marked, cleared) == ([part(28), part(28), rest], true, 4));
    Ok(())
}
