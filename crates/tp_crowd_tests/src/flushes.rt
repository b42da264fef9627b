//! Flushes that are made in parts, for a FLUSH, for what is left of a request with FUA, for the
//! control line `flush`, and for a message.

use crate::served::{Synced, served_in_parts};
use crate::talk::{ANSWERED_FLUSH, ANSWERED_GO, FLUSH, GO, READ, kept_write, write};
use crate::waiting::{Seen, Waiting};
use nbd_session::Profile;
use std::alloc::Global;
use std::marker::Brand;
use std::sync::Wait;
use std::sync::atomic::{AtomicBool, Ordering};
use std::test::Fail;
use std::thread::{Threads, join};
use tp_crowd::{HubLock, LockedDesk};
use tp_hub::{Answers, Desk, Event, Hub, Mark};
use tp_model::Refusal;
use tp_shelf::{FailingShelf, Shelf, failing_in_part, staged_shelf};

/// A client that flushes when another one was greeted, which reads until the first one was answered.
fn told_of_reader<H>(rt: &H) -> Result<(Synced, u64), Fail>
where
    H: Threads + Wait + Sync + Alloc<A = Global>,
{
    let (first, second) = (Seen::nothing(), Seen::nothing());
    let clients = vec![in rt.alloc();
        Waiting::new([GO, FLUSH], 1, &first, &second, ANSWERED_GO),
        Waiting::again([GO, READ], &second, &first, ANSWERED_FLUSH),
    ]?;
    let synced = served_in_parts(rt, clients)?;
    Ok((synced, first.bytes()))
}

/// While the device is brought what one part of a flush wrote, a READ is answered: the sync stays until one has come to it. The flush is answered behind both.
#[test]
fn reads_between_the_parts_of_a_flush(rt: HostRuntime) -> Result<(), Fail> {
    let ((syncs, reads, is_in_vain), answered) = told_of_reader(&rt)?;
    assert_eq!(rt;
        (syncs, reads >= 2, is_in_vain, answered),
        (2, true, false, ANSWERED_FLUSH)
    );
    Ok(())
}

/// Two clients go to a volume, and the first one writes.
fn begin<D: Desk>(desk: &mut D, write: &[u8], out: &mut Answers) {
    desk.ask(Event::Open(0, Profile::Strict), out);
    desk.ask(Event::Bytes(0, GO), out);
    desk.ask(Event::Open(1, Profile::Strict), out);
    desk.ask(Event::Bytes(1, GO), out);
    desk.ask(Event::Bytes(0, write), out);
    out.clear();
}

/// Each of two clients flushes, and how many bytes answer them.
fn flush_both<D: Desk>(desk: &mut D, out: &mut Answers) -> usize {
    desk.ask(Event::Bytes(0, FLUSH), out);
    desk.ask(Event::Bytes(1, FLUSH), out);
    out.bytes().len()
}

/// How many bytes answer two clients of a hub that flush behind a write.
fn answered_by<H>(rt: &H, hub: &HubLock<'_, Shelf, Seen, Brand>, write: &[u8]) -> usize
where
    H: Wait + Sync + Alloc<A = Global>,
{
    let mut out = Answers::new(rt.alloc());
    let mut desk = LockedDesk {
        rt,
        alloc: rt.alloc(),
        hub,
    };
    begin(&mut desk, write, &mut out);
    flush_both(&mut desk, &mut out)
}

/// The same, and how many syncs were made between parts of flushes.
fn told_of_two<H>(rt: &H, write: &[u8]) -> Result<(usize, u64), Refusal>
where
    H: Wait + Sync + Alloc<A = Global>,
{
    let alarm = Seen::nothing();
    let shelf = staged_shelf(rt.alloc(), 2, false)?;
    let hub = HubLock::<Shelf, Seen, Brand>::new(Hub::new(shelf), &alarm);
    let answered = answered_by(rt, &hub, write);
    Ok((answered, hub.into_inner().into_pool().synced().0))
}

/// The same behind a write of a sector.
fn told_of_a_write<H>(rt: &H) -> Result<(usize, u64), Refusal>
where
    H: Wait + Sync + Alloc<A = Global>,
{
    match write(rt.alloc()) {
        Ok(write) => told_of_two(rt, &write),
        Err(_) => Err(Refusal::Memory),
    }
}

/// How many bytes answer a client of this profile that goes to a volume and sends a request twice.
fn answered_to<H>(
    rt: &H,
    hub: &HubLock<'_, Shelf, Seen, Brand>,
    profile: Profile,
    request: &[u8],
) -> usize
where
    H: Wait + Sync + Alloc<A = Global>,
{
    let mut out = Answers::new(rt.alloc());
    let mut desk = LockedDesk {
        rt,
        alloc: rt.alloc(),
        hub,
    };
    desk.ask(Event::Open(0, profile), &mut out);
    desk.ask(Event::Bytes(0, GO), &mut out);
    out.clear();
    desk.ask(Event::Bytes(0, request), &mut out);
    desk.ask(Event::Bytes(0, request), &mut out);
    out.bytes().len()
}

/// The same, and how many syncs were made between parts of flushes.
fn told_of_kept<H>(rt: &H, profile: Profile, write: &[u8]) -> Result<(usize, u64), Refusal>
where
    H: Wait + Sync + Alloc<A = Global>,
{
    let alarm = Seen::nothing();
    let shelf = staged_shelf(rt.alloc(), 2, false)?;
    let hub = HubLock::<Shelf, Seen, Brand>::new(Hub::new(shelf), &alarm);
    let answered = answered_to(rt, &hub, profile, write);
    Ok((answered, hub.into_inner().into_pool().synced().0))
}

/// The same of both profiles, the extended one first.
fn told_of_profiles<H>(rt: &H, write: &[u8]) -> Result<[(usize, u64); 2], Refusal>
where
    H: Wait + Sync + Alloc<A = Global>,
{
    Ok([
        told_of_kept(rt, Profile::Extended, write)?,
        told_of_kept(rt, Profile::Strict, write)?,
    ])
}

/// The same of a write of a sector with FUA.
fn told_of_kept_writes<H>(rt: &H) -> Result<[(usize, u64); 2], Refusal>
where
    H: Wait + Sync + Alloc<A = Global>,
{
    match kept_write(rt.alloc()) {
        Ok(write) => told_of_profiles(rt, &write),
        Err(_) => Err(Refusal::Memory),
    }
}

/// Whether a message over a lock is answered that it is done.
fn is_ordered<H>(rt: &H, hub: &HubLock<'_, Shelf, Seen, Brand>) -> bool
where
    H: Wait + Sync + Alloc<A = Global>,
{
    let mut out = Answers::new(rt.alloc());
    let mut desk = LockedDesk {
        rt,
        alloc: rt.alloc(),
        hub,
    };
    desk.ask(Event::Message(b"set_transaction_id 0 7"), &mut out);
    out.marks() == [Mark::Done].as_slice()
}

/// The same, and how many syncs were made between the parts of what keeps it.
fn told_of_message<H>(rt: &H) -> Result<(bool, u64), Refusal>
where
    H: Wait + Sync + Alloc<A = Global>,
{
    let alarm = Seen::nothing();
    let shelf = staged_shelf(rt.alloc(), 2, false)?;
    let hub = HubLock::<Shelf, Seen, Brand>::new(Hub::new(shelf), &alarm);
    let is_done = is_ordered(rt, &hub);
    Ok((is_done, hub.into_inner().into_pool().synced().0))
}

/// The second of two FLUSHes finds all kept: nothing was written since the first one. Each WRITE with FUA of an extended session is kept by a flush in
/// parts, between which READs go on. Those of a strict one are kept by their own calls, and no flush is made before them. A message is kept in parts.
#[test]
fn two_flushes_share_a_commit(rt: HostRuntime) -> Result<(), Fail> {
    let flushes = told_of_a_write(&rt)?;
    let writes = told_of_kept_writes(&rt)?;
    let message = told_of_message(&rt)?;
    assert_eq!(rt;
        (flushes, writes, message),
        ((32, 2), [(32, 4), (32, 0)], (true, 2))
    );
    Ok(())
}

/// A client goes to a volume.
fn greet<H>(rt: &H, hub: &HubLock<'_, Shelf, Seen, Brand>)
where
    H: Wait + Sync + Alloc<A = Global>,
{
    let mut out = Answers::new(rt.alloc());
    let mut desk = LockedDesk {
        rt,
        alloc: rt.alloc(),
        hub,
    };
    desk.ask(Event::Open(0, Profile::Strict), &mut out);
    desk.ask(Event::Bytes(0, GO), &mut out);
}

/// It reads until a message was answered, and whether that was seen.
fn read_until<H>(rt: &H, hub: &HubLock<'_, Shelf, Seen, Brand>, is_told: &AtomicBool) -> bool
where
    H: Wait + Sync + Alloc<A = Global>,
{
    let mut out = Answers::new(rt.alloc());
    let mut desk = LockedDesk {
        rt,
        alloc: rt.alloc(),
        hub,
    };
    for _ in 0..1u32 << 24 {
        if is_told.load(Ordering::SeqCst) {
            return true;
        }
        out.clear();
        desk.ask(Event::Bytes(0, READ), &mut out);
    }
    false
}

/// Whether the message is answered that it is done, which is noted.
fn order_and_note<H>(rt: &H, hub: &HubLock<'_, Shelf, Seen, Brand>, is_told: &AtomicBool) -> bool
where
    H: Wait + Sync + Alloc<A = Global>,
{
    let is_done = is_ordered(rt, hub);
    is_told.store(true, Ordering::SeqCst);
    is_done
}

/// Both at once.
fn told_of_both<H>(rt: &H) -> Result<(bool, Synced), Refusal>
where
    H: Threads + Wait + Sync + Alloc<A = Global>,
{
    let alarm = Seen::nothing();
    let shelf = staged_shelf(rt.alloc(), 2, true)?;
    let hub = HubLock::<Shelf, Seen, Brand>::new(Hub::new(shelf), &alarm);
    greet(rt, &hub);
    let is_told = AtomicBool::new(false);
    let (is_done, is_seen) = join(
        rt,
        || order_and_note(rt, &hub, &is_told),
        || read_until(rt, &hub, &is_told),
    );
    Ok((is_done && is_seen, hub.into_inner().into_pool().synced()))
}

/// While the device is brought what one part of a message wrote, a READ is answered: the sync stays
/// until one has come to it. No flush is made before the message.
#[test]
fn reads_between_the_parts_of_a_message(rt: HostRuntime) -> Result<(), Fail> {
    let (is_done, (syncs, reads, is_in_vain)) = told_of_both(&rt)?;
    assert_eq!(rt;
        (is_done, syncs, reads >= 2, is_in_vain),
        (true, 2, true, false)
    );
    Ok(())
}

/// What a FLUSH and a READ are answered by a pool that has failed.
const FAILED: &[u8] =
    b"\x67\x44\x66\x98\0\0\0\x05\0\0\0\0\0\0\0\x03\x67\x44\x66\x98\0\0\0\x05\0\0\0\0\0\0\0\x02";

/// A client flushes and then reads, over a pool whose flush fails in this part: whether both have error 5, and how often the alarm sounded.
fn told_of_fault<H>(rt: &H, part: u8) -> Result<(bool, u64), Refusal>
where
    H: Wait + Sync + Alloc<A = Global>,
{
    let alarm = Seen::nothing();
    let shelf = failing_in_part(part)?;
    let hub = HubLock::<FailingShelf, Seen, Brand>::new(Hub::new(shelf), &alarm);
    let mut out = Answers::new(rt.alloc());
    let mut desk = LockedDesk {
        rt,
        alloc: rt.alloc(),
        hub: &hub,
    };
    begin(&mut desk, &[], &mut out);
    desk.ask(Event::Bytes(0, FLUSH), &mut out);
    desk.ask(Event::Bytes(0, READ), &mut out);
    Ok((out.bytes() == FAILED, alarm.bytes()))
}

/// Whether a message, or the control line `flush`, is refused by the very fault, over a pool whose flush fails in
/// this part, and how often the alarm sounded.
fn told_of_faulty_line<H>(rt: &H, message: Option<&[u8]>, part: u8) -> Result<(bool, u64), Refusal>
where
    H: Wait + Sync + Alloc<A = Global>,
{
    let alarm = Seen::nothing();
    let shelf = failing_in_part(part)?;
    let hub = HubLock::<FailingShelf, Seen, Brand>::new(Hub::new(shelf), &alarm);
    let mut out = Answers::new(rt.alloc());
    let mut desk = LockedDesk {
        rt,
        alloc: rt.alloc(),
        hub: &hub,
    };
    begin(&mut desk, &[], &mut out);
    match message {
        Some(line) => desk.ask(Event::Message(line), &mut out),
        None => desk.ask(Event::Flush, &mut out),
    };
    let damaged = Mark::Refused {
        reason: Refusal::Damaged,
    };
    Ok((out.marks() == [damaged].as_slice(), alarm.bytes()))
}

/// In whichever part a flush fails, the alarm sounds once. The client is answered error 5, and so are READs behind it. A message, and the line that asked
/// for a flush, are refused as the flush was, and not as a pool that has failed before.
#[test]
fn a_fault_in_each_part_is_told_once(rt: HostRuntime) -> Result<(), Fail> {
    for part in [0, 1, 2] {
        let told = [
            told_of_fault(&rt, part)?,
            told_of_faulty_line(&rt, Some(b"reserve_metadata_snap"), part)?,
            told_of_faulty_line(&rt, None, part)?,
        ];
        assert_eq!(rt; told, [(true, 1); 3]);
    }
    Ok(())
}
