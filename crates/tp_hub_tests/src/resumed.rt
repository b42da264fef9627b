//! Runs that stop where the buffer is full or memory is refused, and go on from there.

use crate::talk::{
    ALL_GIVEN, GIVEN, GO_0, GONE, GREETED, READ, blank_hub, numbered_reads, repeated,
};
use nbd_session::Profile;
use std::alloc::{AllocError, Global};
use std::test::Fail;
use tp_hub::{Answers, Event, Hub, MOST_BYTES, Mark};
use tp_model::Refusal;
use tp_msg::Managed;
use tp_shelf::Shelf;

/// How many reads of 1 MiB are asked for.
const READS: usize = 8;

/// What the runs came to: how many there were, how many bytes they answered, the most bytes of one, and how many replies came in their order.
#[derive(Clone, Copy)]
struct Came {
    runs: usize,
    bytes: usize,
    most: usize,
    in_order: usize,
    messages: usize,
}

/// The number that a reply to a request tells, where the bytes are one.
fn number_in(reply: &[u8]) -> Option<u8> {
    if !reply.starts_with(b"\x67\x44\x66\x98\0\0\0\0") {
        return None;
    }
    reply.get(15).copied()
}

/// Adds what one run answered: each reply is to tell the next number.
fn add(came: Came, out: &Answers) -> Came {
    let (mut came, mut at) = (came, 0usize);
    for mark in out.marks() {
        match mark {
            Mark::Sent { len, .. } => {
                let next = u8::try_from(came.in_order).unwrap_or(u8::MAX);
                let reply = out.bytes().get(at..).unwrap_or(&[]);
                if *len == ALL_GIVEN && number_in(reply) == Some(next) {
                    came.in_order = came.in_order.saturating_add(1);
                }
                at = at.saturating_add(*len);
            }
            Mark::Done => came.messages = came.messages.saturating_add(1),
            Mark::End { .. } | Mark::Refused { .. } | Mark::Line { .. } => {}
        }
    }
    came.runs = came.runs.saturating_add(1);
    came.bytes = came.bytes.saturating_add(out.bytes().len());
    came.most = came.most.max(out.bytes().len());
    came
}

/// Runs a piece of session 0 and a message behind it, again and again from where the buffer was full, and empties it between two runs.
fn run_on<V: Managed>(alloc: Global, hub: &mut Hub<V>, text: &[u8], out: &mut Answers) -> Came {
    let mut came = Came {
        runs: 0,
        bytes: 0,
        most: 0,
        in_order: 0,
        messages: 0,
    };
    let (mut at, mut events) = (0usize, 0usize);
    for _ in 0..32 {
        let rest = text.get(at..).unwrap_or(&[]);
        let all = [
            Event::Bytes(0, rest),
            Event::Message(b"set_transaction_id 0 1"),
        ];
        let ran = hub.run(alloc, all.get(events..).unwrap_or(&[]), out);
        came = add(came, out);
        out.clear();
        events = events.saturating_add(ran.events);
        at = at.saturating_add(ran.bytes);
        if events >= 2 {
            return came;
        }
    }
    came
}

/// How many bytes answer GO of session 0, and what the runs of a piece behind it come to.
fn came_behind_go(
    alloc: Global,
    mut hub: Hub<Shelf>,
    text: &[u8],
    mut out: Answers,
) -> (usize, Came) {
    hub.run(
        alloc,
        &[Event::Open(0, Profile::Strict), Event::Bytes(0, GO_0)],
        &mut out,
    );
    let answered = out.bytes().len();
    let came = run_on(alloc, &mut hub, text, &mut out);
    let _ = hub.into_pool();
    (answered, came)
}

/// The same of a hub of its own, where the piece is of large reads.
fn came_of_reads(alloc: Global, out: Answers) -> Result<(usize, Came), Refusal> {
    let Ok(text) = numbered_reads(alloc, READS) else {
        return Err(Refusal::Memory);
    };
    Ok(came_behind_go(alloc, blank_hub(alloc)?, &text, out))
}

/// Where the buffer is full a run stops, and the next one gives the rest of the same output: each reply comes once and in its order, and the
/// message behind them is done once. Where the answers have no bound but memory, one run takes all of it, and one more finds nothing left.
#[test]
fn a_full_buffer_loses_no_answer(rt: HostRuntime) -> Result<(), Fail> {
    let (answered, parts) = came_of_reads(rt.alloc(), Answers::of_a_turn(rt.alloc()))?;
    let (answered_too, whole) = came_of_reads(rt.alloc(), Answers::new(rt.alloc()))?;
    let told = [
        (answered, parts.in_order, parts.messages, parts.bytes),
        (answered_too, whole.in_order, whole.messages, whole.bytes),
    ];
    let is_in_bounds = parts.runs > 2 && parts.most <= MOST_BYTES && whole.runs == 1;
    let gone = GREETED + GONE;
    assert!(rt; (told, is_in_bounds) == ([(gone, READS, 1, gone + READS * ALL_GIVEN); 2], true));
    Ok(())
}

/// How many reads of a sector are asked for, so that the room for marks grows again and again.
const SECTORS: usize = 40;

/// GO of volume 0, and reads of a sector.
fn short_reads(alloc: Global) -> Result<Vec<u8>, AllocError> {
    repeated(alloc, GO_0, READ, SECTORS)
}

/// Takes the events of two sessions and of the pool, and goes on from where memory was refused, at most eight times: how many runs took all of them. The
/// answers are added up.
fn run_again<V: Managed>(
    alloc: Global,
    hub: &mut Hub<V>,
    text: &[u8],
    out: &mut Answers,
) -> Option<usize> {
    let (mut at, mut events) = (0usize, 0usize);
    for run in 1..=8usize {
        let rest = text.get(at..).unwrap_or(&[]);
        let all = [
            Event::Message(b"set_transaction_id 0 1"),
            Event::Open(0, Profile::Strict),
            Event::Open(1, Profile::Strict),
            Event::Bytes(0, rest),
            Event::Hangup(1),
            Event::Message(b"set_transaction_id 0 2"),
            Event::Hangup(0),
        ];
        let ran = hub.run(alloc, all.get(events..).unwrap_or(&[]), out);
        events = events.saturating_add(ran.events);
        at = at.saturating_add(ran.bytes);
        if events == all.len() {
            return Some(run);
        }
    }
    None
}

/// Whether two lists of runs took all events, and one of them in one run at least, whether both answered the same by marks and by bytes, and how
/// many of each there are.
type Both = ((bool, bool), (bool, bool), (usize, usize));

fn run_both(alloc: Global, mut hub: Hub<Shelf>, mut other_hub: Hub<Shelf>, text: &[u8]) -> Both {
    let (mut out, mut wanted) = (Answers::new(alloc), Answers::new(alloc));
    let runs = run_again(alloc, &mut hub, text, &mut out);
    let other_runs = run_again(alloc, &mut other_hub, text, &mut wanted);
    let _ = (hub.into_pool(), other_hub.into_pool());
    (
        (
            runs.is_some() && other_runs.is_some(),
            runs == Some(1) || other_runs == Some(1),
        ),
        (out.marks() == wanted.marks(), out.bytes() == wanted.bytes()),
        (out.marks().len(), out.bytes().len()),
    )
}

/// The same beside another hub. None where there is no memory for that.
fn run_beside(alloc: Global, hub: Hub<Shelf>, text: &[u8]) -> Option<Both> {
    match blank_hub(alloc) {
        Ok(other) => Some(run_both(alloc, hub, other, text)),
        Err(_) => None,
    }
}

/// The same of a new hub. None where there is no memory for either.
fn run_two(alloc: Global, text: &[u8]) -> Option<Both> {
    match blank_hub(alloc) {
        Ok(hub) => run_beside(alloc, hub, text),
        Err(_) => None,
    }
}

/// The same of short reads. None also where there is no memory for these.
fn run_short_reads(alloc: Global) -> Option<Both> {
    match short_reads(alloc) {
        Ok(text) => run_two(alloc, &text),
        Err(_) => None,
    }
}

/// To be run with each allocation refused in turn: it is refused in one of both lists of runs at most, and the other one tells what is wanted.
#[test]
fn refused_memory_loses_no_answer(rt: HostRuntime) {
    let all = (
        (true, true),
        (true, true),
        (3 + SECTORS + 4, 2 * GREETED + GONE + SECTORS * GIVEN),
    );
    let told = match run_short_reads(rt.alloc()) {
        Some(told) => told,
        None => all,
    };
    assert!(rt; told == all);
}
