//! An event that is answered by a flush which was made for it.

ghost use Rattle.std.specs.Prelude.{◌≡◌, ◌<◌, ◌≤◌, ◌∷◌, [], Some, false};
ghost use Rattle.tp_model.specs.Flushing.{IsFlushed};
ghost use Rattle.nbd_session.specs.Clauses.{IsReady};
ghost use Rattle.nbd_session.specs.Session.{has_ended};
ghost use Rattle.tp_hub.specs.Desks.{IsAsked, RunsSo};
ghost use Rattle.tp_hub.specs.Flushed.{TakesFlushed};
ghost use Rattle.tp_hub.specs.Flushes.{flush_told};
ghost use Rattle.tp_hub.specs.Places.{IsRan, IsReadySlot};
ghost use Rattle.tp_hub.specs.Runs.{incoming, session_of};
ghost use Rattle.tp_hub.specs.Serving.{Serves, sessions_of, shown};
ghost use Rattle.tp_hub.specs.Staged.{MakesFlush};
ghost use Rattle.tp_hub.specs.Stages.{IsFlushAsked};
ghost use Rattle.tp_hub.specs.Told.{Grows, HasRoom};

use crate::answers::{Answers, Mark};
use crate::event::Event;
use crate::hub::{Ran, SESSIONS};
use nbd_session::Session;
use tp_model::{Refusal, Volumes};

/// How much was taken of a piece of `len` bytes, of which `taken` were.
fn ran_of(taken: usize, len: usize) -> Ran
    requires { taken ≤ len }
    ensures { IsRan taken len result.events result.bytes }
{
    if taken < len {
        return Ran {
            events: 0,
            bytes: taken,
        };
    }
    Ran {
        events: 1,
        bytes: 0,
    }
}

/// Answers the FLUSH that a session makes next by a piece, as a flush of the pool was answered that
/// was made for it.
fn flush_session<V: Volumes>(
    session: &mut Session,
    pool: &V,
    number: u8,
    piece: &[u8],
    answer: Result<(), Refusal>,
    out: &mut Answers,
) -> Ran
    requires room { HasRoom out.old }
    requires makes { MakesFlush session.old piece.now }
    ensures { (p : V) → IsReady session.old.phase (V.view.outline p) (V.view.more p) → has_ended session.old.phase ≡ false → IsFlushed V.view p pool.now answer
        → TakesFlushed V.view number piece.now (Some session.old) p result.events result.bytes out.old out.new (Some session.new) pool.now }
{
    let geometry = pool.geometry();
    match out.end_flush::<V>(session, &geometry, number, piece, answer) {
        Some(taken) => ran_of(taken, piece.len()),
        None => unreachable!(),
    }
}

/// The same of the session at a place.
fn flush_slot<V: Volumes>(
    slot: &mut Option<Session>,
    pool: &V,
    number: u8,
    piece: &[u8],
    answer: Result<(), Refusal>,
    out: &mut Answers,
) -> Ran
    requires room { HasRoom out.old }
    requires makes { MakesFlush (shown slot.old) piece.now }
    ensures { (p : V) → IsReadySlot slot.old (V.view.outline p) (V.view.more p) → IsFlushed V.view p pool.now answer
        → TakesFlushed V.view number piece.now slot.old p result.events result.bytes out.old out.new slot.new pool.now }
{
    match slot {
        Some(session) => flush_session(session, pool, number, piece, answer, out),
        None => unreachable!(),
    }
}

/// Tells how a flush, or a message, was answered.
pub fn tell_answer(answer: Result<(), Refusal>, out: &mut Answers)
    requires { HasRoom out.old }
    ensures { Grows out.old out.new (flush_told answer ∷ []) }
{
    match answer {
        Ok(()) => out.note(Mark::Done),
        Err(reason) => out.note(Mark::Refused { reason }),
    }
}

/// Answers an event that asks for a flush as the flush of the pool was answered that was made for it.
pub fn answer_flush<V: Volumes>(
    sessions: &mut [Option<Session>; SESSIONS],
    pool: &V,
    event: &Event<'_>,
    answer: Result<(), Refusal>,
    out: &mut Answers,
) -> Ran
    requires number { session_of event.now < 64 }
    requires room { HasRoom out.old }
    requires asks { IsFlushAsked (sessions_of sessions.old) event.now }
    requires serves { Serves (V.view.outline pool.now) (V.view.more pool.now) sessions.old }
    requires flushed { (p : V) × IsFlushed V.view p pool.now answer }
    ensures asked { (p : V) → IsFlushed V.view p pool.now answer
        → IsAsked (λ took answers. RunsSo V.view (sessions_of sessions.old) p took answers (sessions_of sessions.new) pool.now) (incoming event.now) result.events result.bytes out.old out.new }
    ensures serves { Serves (V.view.outline pool.now) (V.view.more pool.now) sessions.new }
{
    match *event {
        Event::Parted(number, piece) => flush_slot(
            &mut sessions[usize::from(number)],
            pool,
            number,
            piece,
            answer,
            out,
        ),
        Event::Flush => {
            tell_answer(answer, out);
            Ran {
                events: 1,
                bytes: 0,
            }
        }
        _ => unreachable!(),
    }
}
