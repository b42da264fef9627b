//! Clones where the pool makes no snapshot.

use crate::talk::{GONE, GREETED, blank_hub, sent};
use nbd_session::Profile;
use std::alloc::Global;
use std::test::Fail;
use tp_hub::{Answers, Event, Hub};
use tp_shelf::Shelf;

/// The client flags, and GO of a clone of volume 0.
const FLAGS_AND_GO: &[u8] = b"\0\0\0\x03IHAVEOPT\0\0\0\x07\0\0\0\x0d\0\0\0\x07clone:0\0\0";

/// GO of a clone of a volume that is not there.
const GO_OF_NONE: &[u8] = b"IHAVEOPT\0\0\0\x07\0\0\0\x0d\0\0\0\x07clone:2\0\0";

/// INFO of a clone of volume 0, and GO of volume 0.
const INFO: &[u8] = b"IHAVEOPT\0\0\0\x06\0\0\0\x0d\0\0\0\x07clone:0\0\0";

const GO: &[u8] = b"IHAVEOPT\0\0\0\x07\0\0\0\x07\0\0\0\x010\0\0";

/// How long a reply without data is, and where its type stands.
const REFUSED: usize = 20;

const KIND: usize = 12;

/// ERR_POLICY and ERR_UNKNOWN.
const POLICY: &[u8] = b"\x80\0\0\x02";

const UNKNOWN: &[u8] = b"\x80\0\0\x06";

/// A client asks for clones, and then for the volume itself.
fn ask(alloc: Global, hub: &mut Hub<Shelf>, out: &mut Answers) {
    hub.run(
        alloc,
        &[
            Event::Open(0, Profile::cloning(None)),
            Event::Bytes(0, FLAGS_AND_GO),
            Event::Bytes(0, GO_OF_NONE),
            Event::Bytes(0, INFO),
            Event::Bytes(0, GO),
        ],
        out,
    );
}

/// Whether the answers are so long, and the first two refuse as they should.
fn is_refused(out: &Answers) -> (bool, bool, bool) {
    let marks = [
        sent(0, GREETED),
        sent(0, REFUSED),
        sent(0, REFUSED),
        sent(0, GONE),
        sent(0, GONE),
    ];
    let first = GREETED + KIND;
    let second = first + REFUSED;
    (
        out.marks() == marks.as_slice(),
        out.bytes().get(first..first + 4) == Some(POLICY),
        out.bytes().get(second..second + 4) == Some(UNKNOWN),
    )
}

/// The same of a client of this hub, and how many sessions hold volumes behind it.
fn told_of(alloc: Global, mut hub: Hub<Shelf>) -> ((bool, bool, bool), usize) {
    let mut out = Answers::new(alloc);
    ask(alloc, &mut hub, &mut out);
    (is_refused(&out), hub.into_pool().held())
}

/// A snapshot that is refused is no clone, and the session goes on.
#[test]
fn a_refused_clone_ends_no_session(rt: HostRuntime) -> Result<(), Fail> {
    let told = told_of(rt.alloc(), blank_hub(rt.alloc())?);
    assert_eq!(rt; told, ((true, true, true), 0));
    Ok(())
}
