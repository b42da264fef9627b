//! Serving two clients at once, one or both of whom may be refused memory or a thread.

use crate::disks::Before;
use crate::guests::{Guest, Seen, Silence};
use crate::outcome::Outcome;
use crate::pools::{hub_of_volume, is_kept};
use crate::talk::{READS, texts_of_reads};
use std::alloc::Global;
use std::io::Write;
use std::sync::Wait;
use std::thread::Threads;
use tp_crowd::{Served, serve_all};
use tp_disk::SharedDisk;
use tp_hub::Hub;
use tp_meta::Metadata;
use tp_samples::MemServed;

/// Serves these clients: how many came, how many of them were refused, and the hub behind them. It is generic in the disk and the metadata, so that the prover
/// compares no pool that is written out.
fn serve<'a, H, D, M>(
    rt: &H,
    hub: Hub<tp_served::Served<D, M>>,
    clients: Vec<Guest<'a>>,
) -> ((u8, u64), Hub<tp_served::Served<D, M>>)
where
    H: Threads + Wait + Sync + Alloc<A = Global>,
    D: SharedDisk + Drop + Send + Sync,
    M: Metadata + Drop + Send + Sync,
{
    let served = serve_all(rt, rt.alloc(), hub, clients.into_iter(), &Silence);
    let Served { hub, came, refused } = served;
    ((came, refused), hub)
}

/// How many of two clients were sent nothing and not read from. None where one of them was sent something else than its answers, so many bytes.
fn untouched(first: &Seen, second: &Seen, wanted: usize) -> Option<u64> {
    let mut count = 0u64;
    for seen in [first, second] {
        if seen.is_untouched() {
            count = count.saturating_add(1);
        } else if !seen.is_answered(wanted) {
            return None;
        }
    }
    Some(count)
}

/// What each client sends and is to be sent.
#[derive(Drop)]
struct Visit {
    text: Vec<u8>,
    wanted: Vec<u8>,
}

/// Whether one client more is served over a hub, and the hub's disk is then as it was.
fn is_served_again<H>(rt: &H, hub: Hub<MemServed>, visit: &Visit, before: &Before) -> bool
where
    H: Threads + Wait + Sync + Alloc<A = Global>,
{
    let seen = Seen::nothing();
    let Ok(clients) = vec![in rt.alloc(); Guest::new(&visit.text, &visit.wanted, &seen)] else {
        return false;
    };
    let (counts, hub) = serve(rt, hub, clients);
    let is_kept = is_kept(hub, before);
    counts == (1, 0) && seen.is_answered(visit.wanted.len()) && is_kept
}

/// What serving came to, with what is told of it: who is refused is one who was neither sent anything nor read from.
///
/// It prints how many are told as refused. No allocation is refused behind that.
fn outcome<H, W: Write>(
    rt: &H,
    output: &mut W,
    counts: (u8, u64),
    untouched: Option<u64>,
    hub: Hub<MemServed>,
    visit: &Visit,
    before: &Before,
) -> Outcome
where
    H: Threads + Wait + Sync + Alloc<A = Global>,
{
    let (came, refused) = counts;
    let is_told = came == 2 && untouched == Some(refused);
    let _ = writeln!(output, "clients refused: {refused}");
    match refused {
        0 => Outcome::done(is_kept(hub, before) && is_told),
        1 | 2 => Outcome::refused(is_told, is_served_again(rt, hub, visit, before)),
        _ => Outcome::Wrong,
    }
}

/// What serving two clients comes to.
fn outcome_over<H, W: Write>(
    rt: &H,
    output: &mut W,
    hub: Hub<MemServed>,
    visit: &Visit,
    before: &Before,
) -> Outcome
where
    H: Threads + Wait + Sync + Alloc<A = Global>,
{
    let (first, second) = (Seen::nothing(), Seen::nothing());
    let Ok(clients) = vec![in rt.alloc();
        Guest::new(&visit.text, &visit.wanted, &first),
        Guest::new(&visit.text, &visit.wanted, &second),
    ] else {
        return Outcome::Before;
    };
    let (counts, hub) = serve(rt, hub, clients);
    let untouched = untouched(&first, &second, visit.wanted.len());
    outcome(rt, output, counts, untouched, hub, visit, before)
}

/// The same over the pool of a volume.
fn outcome_of_visit<H, W: Write>(rt: &H, output: &mut W, visit: &Visit) -> Outcome
where
    H: Threads + Wait + Sync + Alloc<A = Global>,
{
    match hub_of_volume(rt.alloc()) {
        Some((hub, before)) => outcome_over(rt, output, hub, visit, &before),
        None => Outcome::Before,
    }
}

/// The same of clients that send reads.
fn outcome_of<H, W: Write>(rt: &H, output: &mut W) -> Outcome
where
    H: Threads + Wait + Sync + Alloc<A = Global>,
{
    match texts_of_reads(rt.alloc(), READS) {
        Ok((text, wanted)) => {
            let visit = Visit { text, wanted };
            outcome_of_visit(rt, output, &visit)
        }
        Err(_) => Outcome::Before,
    }
}

#[test]
fn serve_two_clients(rt: HostRuntime) {
    let mut output = rt.stdout();
    let outcome = match outcome_of(&rt, &mut output) {
        Outcome::Before => Outcome::before(outcome_of(&rt, &mut output)),
        outcome => outcome,
    };
    assert!(rt; outcome.is_right(&mut output));
}
