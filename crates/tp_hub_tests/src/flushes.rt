//! Commits that a hub makes in parts, and a flush that it is asked for.

ghost use Rattle.std.specs.Prelude.{◌<◌};
ghost use Rattle.tp_hub.specs.Runs.{session_of};

use crate::talk::{GIVEN, GO_0, HALF, READ, WRITE, refused, sent};
use nbd_session::Profile;
use std::alloc::Global;
use std::marker::Brand;
use std::test::Fail;
use tp_hub::{Answers, Event, Hub, Mark, Ran, StagedHub};
use tp_model::{Refusal, Staged};
use tp_msg::Managed;
use tp_shelf::{FailingShelf, Shelf, failing_in_part, staged_shelf};

/// A client that wrote a sector of letters.
fn write(alloc: Global, hub: &mut Hub<Shelf>, out: &mut Answers) -> Ran {
    hub.run(
        alloc,
        &[
            Event::Open(0, Profile::Strict),
            Event::Bytes(0, GO_0),
            Event::Bytes(0, WRITE),
            Event::Bytes(0, HALF),
            Event::Bytes(0, HALF),
        ],
        out,
    )
}

/// Whether a READ was taken whole, whether it alone was answered, and the last byte that it was given.
type Read = (bool, bool, Option<u8>);

/// What was told of a READ.
fn told_of_read(ran: Option<Ran>, out: &Answers) -> Read {
    let whole = Ran {
        events: 1,
        bytes: 0,
    };
    let is_alone = out.marks() == [sent(0, GIVEN)].as_slice();
    (ran == Some(whole), is_alone, out.bytes().last().copied())
}

/// A hub that many ask.
type Shared = StagedHub<Shelf, Brand>;

/// A READ between two parts of a commit, behind what was brought to the device.
fn read_between(hub: &Shared, out: &mut Answers) -> Read {
    out.clear();
    hub.sync_ahead();
    let ran = hub.ask_shared(0, READ, out);
    told_of_read(ran, out)
}

/// The next part of the commit that an event asks for: whether the event is answered.
pub fn keep<V: Managed + Staged>(
    hub: &mut StagedHub<V, Brand>,
    event: &Event<'_>,
    is_last: bool,
    out: &mut Answers,
) -> bool
    requires { session_of event.now < 64 }
{
    out.clear();
    if out.make_room().is_err() {
        return false;
    }
    hub.keep(event, is_last, out).is_some()
}

/// The next part of the commit that an event asks for, with a READ before it if one is under way: what
/// the READ was told, and whether the event is answered.
fn next(
    hub: &mut Shared,
    event: &Event<'_>,
    is_first: bool,
    out: &mut Answers,
) -> (Option<Read>, bool)
    requires { session_of event.now < 64 }
{
    if is_first {
        return (None, keep(hub, event, false, out));
    }
    let read = read_between(hub, out);
    (Some(read), keep(hub, event, false, out))
}

/// What becomes of a commit that an event asks for, with a READ before each part but the first.
fn parts_of(hub: &mut Shared, event: &Event<'_>, out: &mut Answers) -> [Option<Read>; 2]
    requires { session_of event.now < 64 }
{
    let (_, is_done) = next(hub, event, true, out);
    if is_done {
        return [None, None];
    }
    let (first, is_done) = next(hub, event, false, out);
    if is_done {
        return [first, None];
    }
    let second = read_between(hub, out);
    keep(hub, event, true, out);
    [first, Some(second)]
}

/// What becomes of the commit of so many parts and a last one that an event asks for, with a READ before
/// each part but the first; and whether it was done, with how many syncs between its parts.
fn told_of_parts(
    alloc: Global,
    parts: u8,
    event: &Event<'_>,
) -> Result<([Option<Read>; 2], (bool, u64)), Refusal>
    requires { session_of event.now < 64 }
{
    let mut hub = Hub::new(staged_shelf(alloc, parts, false)?);
    let mut out = Answers::new(alloc);
    write(alloc, &mut hub, &mut out);
    let mut shared: Shared = StagedHub::new(hub);
    let reads = parts_of(&mut shared, event, &mut out);
    let is_done = out.marks() == [Mark::Done].as_slice();
    let syncs = shared.into_hub().into_pool().synced().0;
    Ok((reads, (is_done, syncs)))
}

/// A READ that is given what was written.
const GAVE: Option<Read> = Some((true, true, Some(0x61)));

/// Between two parts READs are given what was written before the flush. A flush that has fewer parts is
/// done earlier. An event that asks for no commit has no part.
#[test]
fn reads_between_parts(rt: HostRuntime) -> Result<(), Fail> {
    let told = [
        told_of_parts(rt.alloc(), 0, &Event::Flush)?,
        told_of_parts(rt.alloc(), 1, &Event::Flush)?,
        told_of_parts(rt.alloc(), 2, &Event::Flush)?,
        told_of_parts(rt.alloc(), 3, &Event::Flush)?,
        told_of_parts(rt.alloc(), 0, &Event::Status)?,
    ];
    let wanted = [
        ([None, None], (true, 0)),
        ([GAVE, None], (true, 1)),
        ([GAVE, GAVE], (true, 2)),
        ([GAVE, GAVE], (true, 2)),
        ([GAVE, GAVE], (false, 0)),
    ];
    assert!(rt; told == wanted);
    Ok(())
}

/// A message that the pool takes.
const MESSAGE: Event<'static> = Event::Message(b"set_transaction_id 0 7");

/// Another one.
const HOLD: Event<'static> = Event::Message(b"reserve_metadata_snap");

/// Whether a message is answered by its first part, another one behind that, and the first one by
/// its last part.
fn told_of_other(alloc: Global) -> Result<[bool; 3], Refusal> {
    let mut hub: Shared = StagedHub::new(Hub::new(staged_shelf(alloc, 1, false)?));
    let mut out = Answers::new(alloc);
    let begun = keep(&mut hub, &MESSAGE, false, &mut out);
    let other = keep(&mut hub, &HOLD, true, &mut out);
    let ended = keep(&mut hub, &MESSAGE, true, &mut out);
    let _ = hub.into_hub().into_pool();
    Ok([begun, other, ended])
}

/// Between two parts of what keeps a message READs are given what they are given before it, and
/// another message has no part.
#[test]
fn reads_between_the_parts_of_a_message(rt: HostRuntime) -> Result<(), Fail> {
    let told = [
        told_of_parts(rt.alloc(), 0, &MESSAGE)?,
        told_of_parts(rt.alloc(), 1, &MESSAGE)?,
        told_of_parts(rt.alloc(), 2, &MESSAGE)?,
    ];
    let wanted = [
        ([None, None], (true, 0)),
        ([GAVE, None], (true, 1)),
        ([GAVE, GAVE], (true, 2)),
    ];
    let of_other = told_of_other(rt.alloc())?;
    assert!(rt; (told, of_other) == (wanted, [false, false, true]));
    Ok(())
}

/// A commit with all its parts, of which there are three at most.
fn keep_all<V: Managed + Staged>(
    hub: &mut StagedHub<V, Brand>,
    event: &Event<'_>,
    out: &mut Answers,
)
    requires { session_of event.now < 64 }
{
    if keep(hub, event, false, out) {
        return;
    }
    if keep(hub, event, false, out) {
        return;
    }
    keep(hub, event, true, out);
}

/// Whether a commit that fails in such a part is refused, and whether the pool has failed behind it.
fn told_of_fault(alloc: Global, part: u8, event: &Event<'_>) -> Result<(bool, bool), Refusal>
    requires { session_of event.now < 64 }
{
    let mut hub: StagedHub<FailingShelf, Brand> = StagedHub::new(Hub::new(failing_in_part(part)?));
    let mut out = Answers::new(alloc);
    keep_all(&mut hub, event, &mut out);
    let has_failed = hub.failed_pool().is_some();
    let _ = hub.into_hub().into_pool();
    let is_refused = out.marks() == [refused(Refusal::Damaged)].as_slice();
    Ok((is_refused, has_failed))
}

/// The same of each of the three parts.
fn told_of_faults(alloc: Global, event: &Event<'_>) -> Result<[(bool, bool); 3], Refusal>
    requires { session_of event.now < 64 }
{
    Ok([
        told_of_fault(alloc, 0, event)?,
        told_of_fault(alloc, 1, event)?,
        told_of_fault(alloc, 2, event)?,
    ])
}

/// Whether a flush that an event asks for is refused, over a pool whose flush fails.
fn told_of_asked(alloc: Global) -> Result<bool, Refusal> {
    let mut hub = Hub::new(failing_in_part(0)?);
    let mut out = Answers::new(alloc);
    hub.run(alloc, &[Event::Flush], &mut out);
    let _ = hub.into_pool();
    Ok(out.marks() == [refused(Refusal::Damaged)].as_slice())
}

/// In whichever part it fails, a flush is refused, and a message that it keeps, and the pool has failed behind it. An event that asks for a flush is told so.
#[test]
fn a_fault_in_each_part(rt: HostRuntime) -> Result<(), Fail> {
    let of_flush = told_of_faults(rt.alloc(), &Event::Flush)?;
    let of_message = told_of_faults(rt.alloc(), &HOLD)?;
    let is_refused = told_of_asked(rt.alloc())?;
    assert!(rt; (of_flush, of_message, is_refused) == ([(true, true); 3], [(true, true); 3], true));
    Ok(())
}
