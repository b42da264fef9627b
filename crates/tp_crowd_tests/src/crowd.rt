//! Two clients at once, and none.

use crate::pools::served_over_pool;
use crate::served::{Kept, Left, served_all};
use crate::talk::{
    ANSWERED_FLUSH, ANSWERED_GO, ANSWERED_READ, ANSWERED_WRITE, FLUSH, GO, READ, write,
};
use crate::waiting::{Seen, Waiting};
use std::alloc::{AllocError, Global};
use std::sync::Wait;
use std::test::Fail;
use std::thread::Threads;

/// Of two clients how many bytes each was written, how many of them are letters, and whether they waited in vain.
type Written = ((u64, u64), (u64, u64), (bool, bool));

fn written_to(first: &Seen, second: &Seen) -> Written {
    (
        (first.bytes(), second.bytes()),
        (first.letters(), second.letters()),
        (first.waited_in_vain(), second.waited_in_vain()),
    )
}

/// What one of two clients does that go to a volume: what it sends then, before which of its reads it waits for the other one, or that it waits before each write
/// and nowhere else, and how many bytes the other one is to be written by then.
#[derive(Clone, Copy)]
struct Plan<'a> {
    text: &'a [u8],
    waits_before: usize,
    is_slow: bool,
    wanted: u64,
}

/// A client that does that.
fn client<'a>(plan: &Plan<'a>, mine: &'a Seen, other: &'a Seen) -> Waiting<'a> {
    if plan.is_slow {
        return Waiting::slow([GO, plan.text], mine, other, plan.wanted);
    }
    Waiting::new([GO, plan.text], plan.waits_before, mine, other, plan.wanted)
}

/// Serves two clients that do that.
fn served_two<'a, H>(
    rt: &H,
    readers: u64,
    plans: (&Plan<'a>, &Plan<'a>),
    first: &'a Seen,
    second: &'a Seen,
) -> Result<(Left, Kept), Fail>
where
    H: Threads + Wait + Sync + Alloc<A = Global>,
{
    let (one, other) = plans;
    let clients = vec![in rt.alloc(); client(one, first, second), client(other, second, first)]?;
    Ok(served_all(rt, readers, clients)?)
}

/// What is told of them, over a shelf whose shared reads each wait until so many have come.
fn told_of_two<H>(
    rt: &H,
    readers: u64,
    one: &Plan<'_>,
    other: &Plan<'_>,
) -> Result<((Left, Kept), Written), Fail>
where
    H: Threads + Wait + Sync + Alloc<A = Global>,
{
    let (first, second) = (Seen::nothing(), Seen::nothing());
    let told = served_two(rt, readers, (one, other), &first, &second)?;
    Ok((told, written_to(&first, &second)))
}

/// A pool's status line with four data blocks, one of which is in use.
const LINE_WRITTEN: &[u8] = b"0 10/2048 1/4 - rw no_discard_passdown error_if_no_space - 512";

/// A client that writes, and ends when another one was read to, which reads when the first one was answered.
fn told_of_both<H>(rt: &H) -> Result<((u8, u64, bool), Written), Fail>
where
    H: Threads + Wait + Sync + Alloc<A = Global>,
{
    let write = write(rt.alloc())?;
    let one = Plan {
        text: write.as_slice(),
        waits_before: 2,
        is_slow: false,
        wanted: ANSWERED_READ,
    };
    let (first, second) = (Seen::nothing(), Seen::nothing());
    let other = client(&reads_behind(1, ANSWERED_WRITE), &second, &first);
    let clients = vec![in rt.alloc(); client(&one, &first, &second), other]?;
    let told = served_over_pool(rt, clients, LINE_WRITTEN)?;
    Ok((told, written_to(&first, &second)))
}

/// A client that reads, and waits before that read until the other one was written so much.
fn reads_behind(waits_before: usize, wanted: u64) -> Plan<'static> {
    Plan {
        text: READ,
        waits_before,
        is_slow: false,
        wanted,
    }
}

/// The first client writes and ends when the second was read to; the second reads when the first was answered. So neither ends where one is served after
/// the other.
#[test]
fn two_clients_at_once(rt: HostRuntime) -> Result<(), Fail> {
    let told = told_of_both(&rt)?;
    let bytes = (ANSWERED_WRITE, ANSWERED_READ);
    assert_eq!(rt; told, ((2, 0, true), (bytes, (0, 512), (false, false))));
    Ok(())
}

/// A client that reads nothing that it is sent until another one has all its answers.
fn told_of_slow<H>(rt: &H) -> Result<((Left, Kept), Written), Fail>
where
    H: Threads + Wait + Sync + Alloc<A = Global>,
{
    let write = write(rt.alloc())?;
    let one = Plan {
        text: write.as_slice(),
        waits_before: 0,
        is_slow: true,
        wanted: ANSWERED_READ,
    };
    told_of_two(rt, 0, &one, &reads_behind(2, 0))
}

/// The first client does not read what it is sent until the second one has all its answers. So neither ends where a client that reads nothing holds up others.
#[test]
fn a_slow_client_holds_up_nobody(rt: HostRuntime) -> Result<(), Fail> {
    let ((left, (first_bytes, _)), (bytes, _, _)) = told_of_slow(&rt)?;
    assert_eq!(rt;
        (left, bytes, first_bytes),
        (
            (2, 0, 0),
            (ANSWERED_WRITE, ANSWERED_READ),
            (Some(0x61), Some(0))
        )
    );
    Ok(())
}

/// Two clients, each of which reads when the other one was greeted.
fn told_of_readers<H>(rt: &H) -> Result<((Left, Kept), Written), Fail>
where
    H: Threads + Wait + Sync + Alloc<A = Global>,
{
    let one = reads_behind(1, ANSWERED_GO);
    told_of_two(rt, 2, &one, &reads_behind(1, ANSWERED_GO))
}

/// A client that flushes and one that reads, each when the other one was greeted.
fn told_of_reader_and_flusher<H>(rt: &H) -> Result<((Left, Kept), Written), Fail>
where
    H: Threads + Wait + Sync + Alloc<A = Global>,
{
    let flushes = Plan {
        text: FLUSH,
        waits_before: 1,
        is_slow: false,
        wanted: ANSWERED_GO,
    };
    told_of_two(rt, 2, &flushes, &reads_behind(1, ANSWERED_GO))
}

/// Each of two reads stays in the pool until the other one has come. So they do not meet where a lock lets one in at a time, nor where they are not shared.
/// Beside a flush a read stays until what was written is being brought to the device, and that goes on until the read has come. So they do not meet where a
/// flush has the pool alone while it waits for the device.
#[test]
fn reads_at_once(rt: HostRuntime) -> Result<(), Fail> {
    let ((left, (_, are_together)), (bytes, _, _)) = told_of_readers(&rt)?;
    assert_eq!(rt;
        (left, bytes, are_together),
        ((2, 0, 0), (ANSWERED_READ, ANSWERED_READ), true)
    );
    let ((left, (_, are_together)), (bytes, _, _)) = told_of_reader_and_flusher(&rt)?;
    assert_eq!(rt;
        (left, bytes, are_together),
        ((2, 0, 0), (ANSWERED_FLUSH, ANSWERED_READ), true)
    );
    Ok(())
}

/// So many clients that go to a volume, and end.
fn clients_that_go<'a>(
    alloc: Global,
    count: u32,
    mine: &'a Seen,
    other: &'a Seen,
) -> Result<Vec<Waiting<'a>>, AllocError> {
    let mut clients = Vec::new(alloc);
    for _ in 0..count {
        clients.push(Waiting::new([GO, b""], usize::MAX, mine, other, 0))?;
    }
    Ok(clients)
}

/// What is left of so many of them, and how many bytes they were written.
fn left_of_many<H>(rt: &H, count: u32) -> Result<(Left, u64), Fail>
where
    H: Threads + Wait + Sync + Alloc<A = Global>,
{
    let (mine, other) = (Seen::nothing(), Seen::nothing());
    let clients = clients_that_go(rt.alloc(), count, &mine, &other)?;
    let (left, _) = served_all(rt, 0, clients)?;
    Ok((left, mine.bytes()))
}

/// Of more than 64 clients 64 are taken, and of no client none.
#[test]
fn no_client_and_one_too_many(rt: HostRuntime) -> Result<(), Fail> {
    let told = [left_of_many(&rt, 0)?, left_of_many(&rt, 65)?];
    assert_eq!(rt; told, [((0, 0, 0), 0), ((64, 0, 0), 64 * ANSWERED_GO)]);
    Ok(())
}
