//! BLOCK_STATUSes that are answered while others look at the hub.

ghost use Rattle.std.specs.Prelude.{◌<◌};
ghost use Rattle.tp_hub.specs.Runs.{session_of};

use crate::flushes::keep;
use crate::talk::{blank_hub, sent};
use nbd_session::Profile;
use std::alloc::Global;
use std::marker::Brand;
use std::test::Fail;
use tp_hub::{Answers, Event, Hub, Mark, Ran, StagedHub};
use tp_model::Refusal;
use tp_shelf::{Shelf, staged_shelf};

/// The client flags, STRUCTURED_REPLY, SET_META_CONTEXT of volume 0 by the name of the context, and GO of it.
const ENTER: &[u8] =
    b"\0\0\0\x03IHAVEOPT\0\0\0\x08\0\0\0\0IHAVEOPT\0\0\0\x0a\0\0\0\x1c\0\0\0\x010\0\0\0\x01\0\0\0\x0fbase:allocationIHAVEOPT\0\0\0\x07\0\0\0\x07\0\0\0\x010\0\0";

/// The same, by the name of the context that tells since volume 1 too.
const ENTER_SINCE: &[u8] =
    b"\0\0\0\x03IHAVEOPT\0\0\0\x08\0\0\0\0IHAVEOPT\0\0\0\x0a\0\0\0\x30\0\0\0\x010\0\0\0\x02\0\0\0\x0fbase:allocation\0\0\0\x10thinpool:since:1IHAVEOPT\0\0\0\x07\0\0\0\x07\0\0\0\x010\0\0";

/// A BLOCK_STATUS of all of a volume of 1 MiB, and one of its second block.
const STATUSES: &[u8] =
    b"\x25\x60\x95\x13\0\0\0\x07\0\0\0\0\0\0\0\x05\0\0\0\0\0\0\0\0\0\x10\0\0\x25\x60\x95\x13\0\0\0\x07\0\0\0\0\0\0\0\x06\0\0\0\0\0\x01\0\0\0\x01\0\0";

/// What they are answered: all of it is data.
const TOLD: &[u8] =
    b"\x66\x8e\x33\xef\0\x01\0\x05\0\0\0\0\0\0\0\x05\0\0\0\x0c\0\0\0\x01\0\x10\0\0\0\0\0\0\x66\x8e\x33\xef\0\x01\0\x05\0\0\0\0\0\0\0\x06\0\0\0\x0c\0\0\0\x01\0\x01\0\0\0\0\0\0";

/// A BLOCK_STATUS of all of it.
const STATUS: &[u8] = b"\x25\x60\x95\x13\0\0\0\x07\0\0\0\0\0\0\0\x07\0\0\0\0\0\0\0\0\0\x10\0\0";

/// What it is answered in both contexts: all of it is data, and its last half may be other.
const COMPARED: &[u8] =
    b"\x66\x8e\x33\xef\0\0\0\x05\0\0\0\0\0\0\0\x07\0\0\0\x0c\0\0\0\x01\0\x10\0\0\0\0\0\0\x66\x8e\x33\xef\0\x01\0\x05\0\0\0\0\0\0\0\x07\0\0\0\x14\0\0\0\x02\0\x08\0\0\0\0\0\0\0\x08\0\0\0\0\0\x01";

/// All of a piece.
const WHOLE: Ran = Ran {
    events: 1,
    bytes: 0,
};

/// A client that asks by this text for contexts of its volume.
fn enter(alloc: Global, hub: &mut Hub<Shelf>, text: &[u8], out: &mut Answers) {
    hub.run(
        alloc,
        &[Event::Open(0, Profile::Extended), Event::Bytes(0, text)],
        out,
    );
    out.clear();
}

/// What is taken of a piece while others look, of a client that asked by this text for contexts; and whether it is given so many bytes by each
/// answer, and these, as by a run.
fn told_beside(
    alloc: Global,
    hub: &mut Hub<Shelf>,
    text: &[u8],
    piece: &[u8],
    (marks, wanted): (&[Mark], &[u8]),
) -> (Option<Ran>, [bool; 3]) {
    let mut out = Answers::new(alloc);
    enter(alloc, hub, text, &mut out);
    let asked = hub.ask_shared(0, piece, &mut out);
    let mut told = Answers::new(alloc);
    hub.run(alloc, &[Event::Bytes(0, piece)], &mut told);
    let are_given = [
        out.marks() == marks,
        out.bytes() == wanted,
        told.bytes() == wanted,
    ];
    (asked, are_given)
}

/// Where there is data, and what may be other than in an older volume, is told to those who look at once, as by a run.
#[test]
fn statuses_of_a_piece_are_shared(rt: HostRuntime) -> Result<(), Fail> {
    let alloc = rt.alloc();
    let (two, both) = ([sent(0, 32), sent(0, 32)], [sent(0, COMPARED.len())]);
    let told = told_beside(alloc, &mut blank_hub(alloc)?, ENTER, STATUSES, (&two, TOLD));
    let compared = told_beside(
        alloc,
        &mut blank_hub(alloc)?,
        ENTER_SINCE,
        STATUS,
        (&both, COMPARED),
    );
    assert!(rt; [told, compared] == [(Some(WHOLE), [true; 3]); 2]);
    Ok(())
}

/// What is taken of a piece behind the first part of the commit that an event asks for, with the answers
/// to it alone, and how many volumes are held behind the commit.
fn told_between(
    hub: Hub<Shelf>,
    event: &Event<'_>,
    piece: &[u8],
    out: &mut Answers,
) -> (Option<Ran>, usize)
    requires { session_of event.now < 64 }
{
    let mut shared: StagedHub<Shelf, Brand> = StagedHub::new(hub);
    if keep(&mut shared, event, false, out) {
        return (None, shared.into_hub().into_pool().held());
    }
    out.clear();
    let ran = shared.ask_shared(0, piece, out);
    (ran, shared.into_hub().into_pool().held())
}

/// The same of a hub of its own, and whether they are answered so.
fn told_midway(alloc: Global) -> Result<((Option<Ran>, usize), bool), Refusal> {
    let mut hub = Hub::new(staged_shelf(alloc, 1, false)?);
    let mut out = Answers::new(alloc);
    enter(alloc, &mut hub, ENTER, &mut out);
    let told = told_between(hub, &Event::Flush, STATUSES, &mut out);
    Ok((told, out.bytes() == TOLD))
}

/// What is taken of a BLOCK_STATUS in the midst of a message, by a hub of its own of whose volume a
/// client asked by this text for contexts, and how many bytes it is answered.
fn told_in_message(alloc: Global, text: &[u8]) -> Result<((Option<Ran>, usize), usize), Refusal> {
    let mut hub = Hub::new(staged_shelf(alloc, 1, false)?);
    let mut out = Answers::new(alloc);
    enter(alloc, &mut hub, text, &mut out);
    let event = Event::Message(b"set_transaction_id 0 7");
    let told = told_between(hub, &event, STATUS, &mut out);
    Ok((told, out.bytes().len()))
}

/// Between two parts of a flush it is told as before the flush. In the midst of a message one waits whose session is told since an older volume, and no
/// other one does.
#[test]
fn statuses_in_the_midst_of_a_message(rt: HostRuntime) -> Result<(), Fail> {
    let of_flush = told_midway(rt.alloc())?;
    let of_message = [
        told_in_message(rt.alloc(), ENTER)?,
        told_in_message(rt.alloc(), ENTER_SINCE)?,
    ];
    assert!(rt; of_flush == ((Some(WHOLE), 0), true));
    assert!(rt; of_message == [((Some(WHOLE), 0), 32), ((None, 0), 0)]);
    Ok(())
}
