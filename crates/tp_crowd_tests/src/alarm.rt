//! A pool that fails while it serves.

use crate::talk::{ANSWERED_GO, ANSWERED_WRITE, FLUSH, GO};
use crate::waiting::{Seen, Waiting};
use std::alloc::Global;
use std::sync::Wait;
use std::test::Fail;
use std::thread::Threads;
use tp_crowd::{Served, serve_all};
use tp_hub::Hub;
use tp_model::Refusal;
use tp_shelf::failing_shelf;

/// Serves these clients over a shelf that fails: how many came, and how many were refused.
fn served_failing<H>(rt: &H, clients: Vec<Waiting<'_>>, alarm: &Seen) -> Result<(u8, u64), Refusal>
where
    H: Threads + Wait + Sync + Alloc<A = Global>,
{
    let hub = Hub::new(failing_shelf()?);
    let Served {
        hub: _,
        came,
        refused,
    } = serve_all(rt, rt.alloc(), hub, clients.into_iter(), alarm);
    Ok((came, refused))
}

/// The same of two clients that flush, the second one when the alarm has sounded; how often it sounded, and how many bytes each was written.
fn told_of_failing<H>(rt: &H) -> Result<((u8, u64), u64, (u64, u64)), Fail>
where
    H: Threads + Wait + Sync + Alloc<A = Global>,
{
    let (first, second, alarm) = (Seen::nothing(), Seen::nothing(), Seen::nothing());
    let clients = vec![in rt.alloc();
        Waiting::new([GO, FLUSH], 1, &first, &second, ANSWERED_GO),
        Waiting::new([GO, FLUSH], 1, &second, &alarm, 1),
    ]?;
    let told = served_failing(rt, clients, &alarm)?;
    Ok((told, alarm.bytes(), (first.bytes(), second.bytes())))
}

/// The pool fails in the flush of the first client. The second one, which flushes when the alarm has sounded, is refused, and it does not sound again.
#[test]
fn a_pool_that_fails_is_told_once(rt: HostRuntime) -> Result<(), Fail> {
    let told = told_of_failing(&rt)?;
    assert_eq!(rt; told, ((2, 0), 1, (ANSWERED_WRITE, ANSWERED_WRITE)));
    Ok(())
}
