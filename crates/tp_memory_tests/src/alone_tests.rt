//! One client over a hub of its own, whose room for answers may not grow.
ghost use Rattle.std.specs.Prelude.{◌≡◌, ◌<◌, IfOk, length};

use crate::disks::Before;
use crate::guests::{Guest, Seen};
use crate::outcome::Outcome;
use crate::pools::{hub_of_volume, is_kept};
use crate::talk::{READS, texts_of_reads};
use nbd_session::Profile;
use std::alloc::{AllocError, Global};
use tp_hub::{Answers, Carried, Hub, HubDesk, carry, serve};
use tp_samples::MemServed;

/// By which call the client is served.
#[derive(Clone, Copy, Debug, PartialEq, Eq)]
enum Way {
    Serve,
    Carry,
}

/// By which call a client is served, what it sends, and what it is to be sent.
#[derive(Drop)]
struct Visit {
    way: Way,
    text: Vec<u8>,
    wanted: Vec<u8>,
}

/// In so many parts a client is answered where nothing is refused: the greeting, and all the rest.
const PARTS: u64 = 2;

fn carry_over(
    alloc: Global,
    hub: Hub<MemServed>,
    guest: &mut Guest<'_>,
    buffer: &mut Vec<u8>,
) -> (Hub<MemServed>, Carried)
    requires { 0 < length buffer.old.items }
{
    let mut hub = hub;
    let mut out = Answers::of_a_turn(alloc);
    let mut desk = HubDesk {
        alloc,
        hub: &mut hub,
    };
    let ending = carry(&mut desk, 5, Profile::Strict, guest, buffer, &mut out);
    let HubDesk { alloc: _, hub: _ } = desk;
    (hub, ending)
}

/// Serves a client, and tells how that ended.
fn serve_so(
    alloc: Global,
    way: Way,
    hub: Hub<MemServed>,
    guest: &mut Guest<'_>,
    buffer: &mut Vec<u8>,
) -> (Hub<MemServed>, Carried)
    requires { 0 < length buffer.old.items }
{
    if way == Way::Carry {
        return carry_over(alloc, hub, guest, buffer);
    }
    let mut out = Answers::of_a_turn(alloc);
    serve(alloc, hub, Profile::Strict, guest, buffer, &mut out)
}

/// Serves a client of the visit, of which all is noted that it sees.
fn serve_guest(
    alloc: Global,
    hub: Hub<MemServed>,
    visit: &Visit,
    seen: &Seen,
    buffer: &mut Vec<u8>,
) -> (Hub<MemServed>, Carried)
    requires { 0 < length buffer.old.items }
{
    let mut guest = Guest::new(&visit.text, &visit.wanted, seen);
    serve_so(alloc, visit.way, hub, &mut guest, buffer)
}

/// Whether a client had all its answers, and the disk is as it was.
fn is_served(
    hub: Hub<MemServed>,
    visit: &Visit,
    before: &Before,
    seen: &Seen,
    ending: Carried,
) -> bool {
    let is_kept = is_kept(hub, before);
    ending == Carried::EndOfInput && seen.is_answered(visit.wanted.len()) && is_kept
}

/// How many bytes are read at once: all that a client sends.
const PIECE: usize = 4096;

/// So many zero bytes.
fn zeroes(alloc: Global, len: usize) -> Result<Vec<u8>, AllocError>
    ensures { IfOk result (λ v. length v.items ≡ len) }
{
    vec![in alloc; 0u8; len]
}

/// Whether one client more is served.
fn is_served_again(alloc: Global, hub: Hub<MemServed>, visit: &Visit, before: &Before) -> bool {
    let Ok(mut buffer) = zeroes(alloc, PIECE) else {
        return false;
    };
    let seen = Seen::nothing();
    let (hub, ending) = serve_guest(alloc, hub, visit, &seen, &mut buffer);
    is_served(hub, visit, before, &seen, ending)
}

/// What serving a client comes to.
fn outcome(
    alloc: Global,
    hub: Hub<MemServed>,
    visit: &Visit,
    before: &Before,
    buffer: &mut Vec<u8>,
) -> Outcome
    requires { 0 < length buffer.old.items }
{
    let seen = Seen::nothing();
    let (hub, ending) = serve_guest(alloc, hub, visit, &seen, buffer);
    if ending == Carried::NoMemory {
        let is_again = is_served_again(alloc, hub, visit, before);
        return Outcome::refused(seen.is_untouched(), is_again);
    }
    if !is_served(hub, visit, before, &seen, ending) || seen.flushes() > PARTS + 1 {
        return Outcome::Wrong;
    }
    if seen.flushes() > PARTS {
        Outcome::Again
    } else {
        Outcome::Done
    }
}

fn outcome_over(alloc: Global, hub: Hub<MemServed>, visit: &Visit, before: &Before) -> Outcome {
    match zeroes(alloc, PIECE) {
        Ok(mut buffer) => outcome(alloc, hub, visit, before, &mut buffer),
        Err(_) => Outcome::Before,
    }
}

/// What a visit comes to over the pool of a volume.
fn outcome_of_visit(alloc: Global, visit: &Visit) -> Outcome {
    match hub_of_volume(alloc) {
        Some((hub, before)) => outcome_over(alloc, hub, visit, &before),
        None => Outcome::Before,
    }
}

/// What serving a client comes to.
fn outcome_of(alloc: Global, way: Way) -> Outcome {
    match texts_of_reads(alloc, READS) {
        Ok((text, wanted)) => {
            let visit = Visit { way, text, wanted };
            outcome_of_visit(alloc, &visit)
        }
        Err(_) => Outcome::Before,
    }
}

/// The same, tried again where memory was refused before the call.
fn tried(alloc: Global, way: Way) -> Outcome {
    match outcome_of(alloc, way) {
        Outcome::Before => Outcome::before(outcome_of(alloc, way)),
        outcome => outcome,
    }
}

#[test]
fn serve_a_client(rt: HostRuntime) {
    let outcome = tried(rt.alloc(), Way::Serve);
    assert!(rt; outcome.is_right(&mut rt.stdout()));
}

#[test]
fn carry_a_client(rt: HostRuntime) {
    let outcome = tried(rt.alloc(), Way::Carry);
    assert!(rt; outcome.is_right(&mut rt.stdout()));
}
