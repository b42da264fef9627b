//! BLOCK_STATUSes over the lock.

use crate::waiting::Seen;
use nbd_session::Profile;
use std::alloc::Global;
use std::marker::Brand;
use std::sync::Wait;
use std::test::Fail;
use tp_crowd::{HubLock, LockedDesk};
use tp_hub::{Answers, Desk, Event, Hub};
use tp_model::Refusal;
use tp_shelf::{Shelf, shelf_of_readers};

/// The client flags, STRUCTURED_REPLY, SET_META_CONTEXT of volume 0 by the name of the context, and GO of it.
const ENTER: &[u8] =
    b"\0\0\0\x03IHAVEOPT\0\0\0\x08\0\0\0\0IHAVEOPT\0\0\0\x0a\0\0\0\x1c\0\0\0\x010\0\0\0\x01\0\0\0\x0fbase:allocationIHAVEOPT\0\0\0\x07\0\0\0\x07\0\0\0\x010\0\0";

/// A BLOCK_STATUS of all of a volume of 1 MiB.
const STATUS: &[u8] = b"\x25\x60\x95\x13\0\0\0\x07\0\0\0\0\0\0\0\x05\0\0\0\0\0\0\0\0\0\x10\0\0";

/// What it is answered: all of it is data.
const TOLD: &[u8] =
    b"\x66\x8e\x33\xef\0\x01\0\x05\0\0\0\0\0\0\0\x05\0\0\0\x0c\0\0\0\x01\0\x10\0\0\0\0\0\0";

/// A client sends what takes a few turns.
fn enter<D: Desk>(desk: &mut D, out: &mut Answers) {
    let mut at = 0usize;
    for _ in 0..4 {
        let ran = desk.ask(Event::Bytes(0, ENTER.get(at..).unwrap_or(&[])), out);
        if ran.events > 0 {
            return;
        }
        at = at.saturating_add(ran.bytes);
    }
}

/// Whether a client that asks where there is data is answered so.
fn is_told<H>(rt: &H, hub: &HubLock<'_, Shelf, Seen, Brand>) -> bool
where
    H: Wait + Sync + Alloc<A = Global>,
{
    let mut out = Answers::new(rt.alloc());
    let mut desk = LockedDesk {
        rt,
        alloc: rt.alloc(),
        hub,
    };
    desk.ask(Event::Open(0, Profile::Extended), &mut out);
    enter(&mut desk, &mut out);
    out.clear();
    desk.ask(Event::Bytes(0, STATUS), &mut out);
    out.bytes() == TOLD
}

/// The same of a lock of its own, and whether the pool was asked for it by a shared walk.
fn told_of<H>(rt: &H) -> Result<(bool, bool), Refusal>
where
    H: Wait + Sync + Alloc<A = Global>,
{
    let alarm = Seen::nothing();
    let shelf = shelf_of_readers(rt.alloc(), 1)?;
    let hub = HubLock::<Shelf, Seen, Brand>::new(Hub::new(shelf), &alarm);
    let is_told = is_told(rt, &hub);
    Ok((is_told, hub.into_inner().into_pool().read_together()))
}

/// A BLOCK_STATUS shares the lock: it asks for a walk that others may make at the same time.
#[test]
fn a_status_shares_the_lock(rt: HostRuntime) -> Result<(), Fail> {
    let told = told_of(&rt)?;
    assert!(rt; told == (true, true));
    Ok(())
}
