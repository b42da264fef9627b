//! Pieces of several requests: reads that are shared, and a long request whose parts are made one by one.

use crate::talk::{
    DONE, GIVEN, GO_0, GO_1, GONE, GREETED, HALF, READ, WRITE, blank_hub, reads_and_a_write,
    refused, sent, wide_hub,
};
use nbd_session::Profile;
use std::alloc::Global;
use std::test::Fail;
use tp_hub::{Answers, Event, Hub, Mark, Ran};
use tp_model::Refusal;
use tp_msg::Managed;
use tp_shelf::Shelf;

/// Sessions 1 and 2 each go to a volume of their own and send a write in halves, by turns: the second one's is whole, and it reads.
fn write_by_turns<V: Managed>(alloc: Global, hub: &mut Hub<V>, out: &mut Answers) -> Ran {
    hub.run(
        alloc,
        &[
            Event::Open(1, Profile::Strict),
            Event::Open(2, Profile::Strict),
            Event::Bytes(1, GO_0),
            Event::Bytes(2, GO_1),
            Event::Bytes(1, WRITE),
            Event::Bytes(1, HALF),
            Event::Bytes(2, WRITE),
            Event::Bytes(2, HALF),
            Event::Bytes(2, HALF),
            Event::Bytes(2, READ),
        ],
        out,
    )
}

/// The bytes of two reads.
const TWO_READS: usize = 56;

/// What shared reads tell of a piece, and of what stands behind its reads.
fn ask_twice(hub: &Hub<Shelf>, piece: &[u8], out: &mut Answers) -> (Option<Ran>, Option<Ran>) {
    let first = hub.ask_shared(2, piece, out);
    let write = piece.get(TWO_READS..).unwrap_or(&[]);
    (first, hub.ask_shared(2, write, out))
}

/// The same, and whether two answers were given, which are those of a run.
type Shared = ((Option<Ran>, Option<Ran>), bool, bool);

/// That behind the writes by turns.
fn shared_as_run(alloc: Global, hub: &mut Hub<Shelf>, piece: &[u8]) -> Shared {
    let mut out = Answers::new(alloc);
    write_by_turns(alloc, hub, &mut out);
    out.clear();
    let asked = ask_twice(hub, piece, &mut out);
    let reads = piece.get(..TWO_READS).unwrap_or(&[]);
    let mut told = Answers::new(alloc);
    hub.run(alloc, &[Event::Bytes(2, reads)], &mut told);
    let are_given = out.marks() == [sent(2, GIVEN), sent(2, GIVEN)].as_slice();
    (asked, are_given, out.bytes() == told.bytes())
}

/// The same of a hub of its own.
fn shared_of(alloc: Global, piece: &[u8]) -> Result<Shared, Refusal> {
    let mut hub = blank_hub(alloc)?;
    Ok(shared_as_run(alloc, &mut hub, piece))
}

/// The same of a piece of reads and a write.
fn shared_reads(alloc: Global) -> Result<Shared, Refusal> {
    match reads_and_a_write(alloc) {
        Ok(piece) => shared_of(alloc, &piece),
        Err(_) => Err(Refusal::Memory),
    }
}

/// Shared reads answer the reads with which a piece begins, as a run does, and nothing behind them.
#[test]
fn reads_of_a_piece_are_shared(rt: HostRuntime) -> Result<(), Fail> {
    let told = shared_reads(rt.alloc())?;
    let taken = Ran {
        events: 0,
        bytes: TWO_READS,
    };
    assert!(rt; told == ((Some(taken), None), true, true));
    Ok(())
}

/// What a session offers that takes long requests.
const LONG: Profile = Profile::Extended;

/// Asks for one part of session 0's request more, and tells whether any are left.
fn one_more(alloc: Global, hub: &mut Hub<Shelf>, out: &mut Answers) -> bool {
    hub.run(alloc, &[Event::Parted(0, &[])], out);
    hub.is_at_work(0)
}

/// Session 0 begins a long request, by a piece with a read before it and one behind it, and makes the first part.
fn begin(alloc: Global, hub: &mut Hub<Shelf>, piece: &[u8], out: &mut Answers) -> (Ran, bool) {
    hub.run(alloc, &[Event::Open(0, LONG), Event::Bytes(0, GO_0)], out);
    out.clear();
    let ran = hub.run(alloc, &[Event::Parted(0, piece)], out);
    (ran, one_more(alloc, hub, out))
}

/// Another session goes to a volume, writes a sector of it and reads that, while session 0 is at work; and text for session 0 is refused.
fn run_between(alloc: Global, hub: &mut Hub<Shelf>, out: &mut Answers) -> Ran {
    hub.run(
        alloc,
        &[
            Event::Open(1, LONG),
            Event::Bytes(1, GO_1),
            Event::Bytes(1, WRITE),
            Event::Bytes(1, HALF),
            Event::Bytes(1, HALF),
            Event::Bytes(1, READ),
            Event::Bytes(0, READ),
        ],
        out,
    )
}

/// What is told of a piece with a long request in it whose parts are asked for one by one, with another session's requests between the first and the second.
fn told_by_parts(
    alloc: Global,
    mut hub: Hub<Shelf>,
    piece: &[u8],
) -> ((Ran, bool), Ran, [bool; 3], bool, u64) {
    let mut out = Answers::new(alloc);
    let begun = begin(alloc, &mut hub, piece, &mut out);
    let between = run_between(alloc, &mut hub, &mut out);
    let left = [
        one_more(alloc, &mut hub, &mut out),
        one_more(alloc, &mut hub, &mut out),
        one_more(alloc, &mut hub, &mut out),
    ];
    let marks = [
        sent(0, GIVEN),
        sent(1, GREETED),
        sent(1, GONE),
        sent(1, DONE),
        sent(1, GIVEN),
        refused(Refusal::SessionInUse),
        sent(0, DONE),
    ];
    let is_marked = out.marks() == marks.as_slice();
    (begun, between, left, is_marked, hub.into_pool().cleared())
}

/// A read, the long request, and a read, of which nothing is taken before its parts are made.
const READ_TRIM_READ: &[u8] =
    b"\x25\x60\x95\x13\0\0\0\0\0\0\0\0\0\0\0\x02\0\0\0\0\0\0\0\0\0\0\x02\0\
\x25\x60\x95\x13\0\0\0\x04\0\0\0\0\0\0\0\x05\0\0\0\0\0\x01\0\0\0\x30\0\0\
\x25\x60\x95\x13\0\0\0\0\0\0\0\0\0\0\0\x02\0\0\0\0\0\0\0\0\0\0\x02\0";

#[test]
fn others_are_served_between_two_parts(rt: HostRuntime) -> Result<(), Fail> {
    let told = told_by_parts(rt.alloc(), wide_hub(rt.alloc())?, READ_TRIM_READ);
    let begun = Ran {
        events: 0,
        bytes: 56,
    };
    let between = Ran {
        events: 7,
        bytes: 0,
    };
    assert!(rt; told == ((begun, true), between, [true, true, false], true, 4));
    Ok(())
}
