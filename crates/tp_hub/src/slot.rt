//! One session at its place.

ghost use Rattle.std.specs.Prelude.{◌≡◌, ℕ, None, Some, true, false, [], ◌∷◌};
ghost use Rattle.tp_model.specs.declared.refusal.Refusal.TheVariants.{NoSession};
ghost use Rattle.nbd_session.specs.Session.{has_ended, is_at_work, state};
ghost use Rattle.nbd_session.specs.Turns.{Sessions};
ghost use Rattle.nbd_session.specs.Clauses.{IsCalm, IsReady};
ghost use Rattle.nbd_wire.specs.Replies.{greeting};
ghost use Rattle.tp_hub.specs.Runs.{Brings, Comes, Goes};
ghost use Rattle.tp_hub.specs.Told.{Grows, HasRoom, IsFull, Refuses, Says};
ghost use Rattle.tp_hub.specs.Places.{HearsAnywhere, HearsSo, IsIdleSlot, IsOpenSlot, IsReadySlot, IsRest, KeepsServing, SlotTakes, put};
ghost use Rattle.tp_hub.specs.Serving.{LeaveTo, shown};

use crate::answers::{Answers, Mark};
use nbd_session::{Phase, Profile, Session};
use std::alloc::Global;
use tp_model::{Cloned, Refusal, Volumes};

/// How much of one event was taken: all of it, or so many bytes of its piece.
#[derive(Clone, Copy, Debug)]
pub struct Took {
    pub whole: bool,
    pub bytes: usize,
}

/// The whole event was taken.
pub const WHOLE: Took = Took {
    whole: true,
    bytes: 0,
};

/// Nothing of the event was taken.
pub const NOTHING: Took = Took {
    whole: false,
    bytes: 0,
};

/// What became of a piece.
#[derive(Clone, Copy, Debug)]
pub enum Heard {
    /// All of it was heard.
    Whole,
    /// The session ended in it.
    Over,
    /// So many bytes were heard, and then memory for the next answer was refused.
    Stopped(usize),
    /// A request of which parts are left ended so many bytes: a long one, or one that is kept apart.
    Parted(usize),
}

/// A session makes the parts that are left of a request, if there are any. None of them but the last says something, so room for one longest answer will do.
fn work_off<V: Cloned>(session: &mut Session, pool: &mut V, number: u8, out: &mut Answers)
    requires ready { IsReady session.old.phase (V.view.outline pool.old) (V.view.more pool.old) }
    requires goes_on { has_ended session.old.phase ≡ false }
    requires room { is_at_work session.old.phase ≡ true → HasRoom out.old }
    ensures hears { HearsAnywhere V.view number session.old pool.old [] out.old out.new session.new pool.new }
    ensures keeps { KeepsServing V.view number (Some session.old) pool.old (Some session.new) pool.new }
    ensures ready { IsReady session.new.phase (V.view.outline pool.new) (V.view.more pool.new) }
    ensures goes_on { has_ended session.new.phase ≡ false }
    ensures idle { is_at_work session.new.phase ≡ false }
{
    while session.is_at_work() {
        out.hear(session, pool, number, &[]);
    }
}

/// A session hears a piece, and makes the parts of its long requests, unless it is to stop there. Room is made before each step that takes something.
fn hear<V: Cloned>(
    session: &mut Session,
    pool: &mut V,
    number: u8,
    piece: &[u8],
    is_parted: bool,
    out: &mut Answers,
) -> Heard
    requires ready { IsReady session.old.phase (V.view.outline pool.old) (V.view.more pool.old) }
    requires open { has_ended session.old.phase ≡ false }
    requires idle { is_at_work session.old.phase ≡ false }
    ensures heard { HearsSo V.view number is_parted session.old pool.old piece.now out.old out.new session.new pool.new result }
    ensures idle { is_parted ≡ false → is_at_work session.new.phase ≡ false }
{
    let _ = session.phase();
    let mut at = 0;
    while at < piece.len() {
        if out.make_room().is_err() {
            return Heard::Stopped(at);
        }
        let step = out.hear(session, pool, number, &piece[at..]);
        if step.ended {
            return Heard::Over;
        }
        at += step.taken;
        if is_parted && session.is_at_work() {
            return Heard::Parted(at);
        }
        work_off(session, pool, number, out);
    }
    Heard::Whole
}

/// What is sent before anything comes.
fn greet(session: &mut Session, number: u8, out: &mut Answers)
    requires { HasRoom out.old }
    ensures says { Grows out.old out.new (Says number greeting ∷ []) }
    ensures same { session.new ≡ session.old }
    ensures calm { IsCalm session.new }
{
    let _ = session.phase();
    out.say(number, session.greeting());
}

/// Says that a session is not open.
fn refuse(out: &mut Answers) -> Took
    ensures whole { result.whole ≡ true → Grows out.old out.new (Refuses NoSession ∷ []) }
    ensures none { result.whole ≡ false → Grows out.old out.new [] }
    ensures full { result.whole ≡ false → IsFull out.new }
    ensures bytes { result.bytes ≡ 0 }
{
    if out.make_room().is_err() {
        return NOTHING;
    }
    out.note(Mark::Refused {
        reason: Refusal::NoSession,
    });
    WHOLE
}

/// A client comes: its session is opened, and it is greeted.
pub fn open_slot<V: Volumes>(
    slot: &mut Option<Session>,
    alloc: Global,
    number: u8,
    profile: Profile,
    out: &mut Answers,
) -> Took
    requires { IsOpenSlot slot.old }
    ensures takes { (pool : V) → SlotTakes V.view (Comes number profile) slot.old pool result.whole result.bytes out.old out.new slot.new pool }
    ensures idle { IsIdleSlot slot.old → IsIdleSlot slot.new }
{
    if out.make_room().is_err() {
        return NOTHING;
    }
    match slot {
        Some(_) => {
            out.note(Mark::Refused {
                reason: Refusal::SessionInUse,
            });
            WHOLE
        }
        None => match Session::open(alloc, profile) {
            Err(_) => NOTHING,
            Ok(mut session) => {
                greet(&mut session, number, out);
                *slot = Some(session);
                WHOLE
            }
        },
    }
}

/// A session that has parts of a request left makes them where no text comes, or one of them where it is parted, and else refuses that: it is asked to make
/// them first.
fn go_on<V: Cloned>(
    session: &mut Session,
    pool: &mut V,
    number: u8,
    piece: &[u8],
    is_parted: bool,
    out: &mut Answers,
) -> Took
    requires ready { IsReady session.old.phase (V.view.outline pool.old) (V.view.more pool.old) }
    requires open { has_ended session.old.phase ≡ false }
    requires work { is_at_work session.old.phase ≡ true }
    ensures takes { SlotTakes V.view (Brings number piece.now) (Some session.old) pool.old result.whole result.bytes out.old out.new (Some session.new) pool.new }
    ensures made { is_parted ≡ false → piece.now ≡ [] → result.whole ≡ true → is_at_work session.new.phase ≡ false }
{
    if out.make_room().is_err() {
        return NOTHING;
    }
    if !piece.is_empty() {
        out.note(Mark::Refused {
            reason: Refusal::SessionInUse,
        });
        return WHOLE;
    }
    if is_parted {
        out.hear(session, pool, number, piece);
        return WHOLE;
    }
    work_off(session, pool, number, out);
    WHOLE
}

/// How much was taken of a piece of `len` bytes, where the first `bytes` of them were.
fn up_to(bytes: usize, len: usize) -> Took
    ensures { IsRest result.whole result.bytes bytes len }
{
    if bytes == len {
        return WHOLE;
    }
    Took {
        whole: false,
        bytes,
    }
}

/// A session's client sends a piece, which is heard up to where a long request begins, or of which one part is made, where it is parted.
pub fn hear_slot<V: Cloned>(
    slot: &mut Option<Session>,
    pool: &mut V,
    number: u8,
    piece: &[u8],
    is_parted: bool,
    out: &mut Answers,
) -> Took
    requires { IsReadySlot slot.old (V.view.outline pool.old) (V.view.more pool.old) }
    ensures takes { SlotTakes V.view (Brings number piece.now) slot.old pool.old result.whole result.bytes out.old out.new slot.new pool.new }
    ensures idle { is_parted ≡ false → IsIdleSlot slot.old → IsIdleSlot slot.new }
    ensures made { is_parted ≡ false → piece.now ≡ [] → result.whole ≡ true → IsIdleSlot slot.new }
{
    match slot {
        None => refuse(out),
        Some(session) if session.is_at_work() => go_on(
            session, pool, number, piece, is_parted, out,
        ),
        Some(session) => match hear(session, pool, number, piece, is_parted, out) {
            Heard::Whole => WHOLE,
            Heard::Stopped(bytes) => Took {
                whole: false,
                bytes,
            },
            Heard::Parted(bytes) => up_to(bytes, piece.len()),
            Heard::Over => {
                *slot = None;
                WHOLE
            }
        },
    }
}

/// A session's client goes: its volume is let go, and deleted where it is a clone.
pub fn leave_slot<V: Cloned>(
    slot: &mut Option<Session>,
    pool: &mut V,
    number: u8,
    out: &mut Answers,
) -> Took
    requires { IsReadySlot slot.old (V.view.outline pool.old) (V.view.more pool.old) }
    ensures takes { SlotTakes V.view (Goes number) slot.old pool.old result.whole result.bytes out.old out.new slot.new pool.new }
    ensures idle { IsIdleSlot slot.old → IsIdleSlot slot.new }
{
    if out.make_room().is_err() {
        return NOTHING;
    }
    match slot.take() {
        None => {
            out.note(Mark::Refused {
                reason: Refusal::NoSession,
            });
            WHOLE
        }
        Some(session) => {
            session.leave(pool);
            out.note(Mark::End { session: number });
            WHOLE
        }
    }
}

/// A session ends where there is one, with no answer.
pub fn leave_place<V: Cloned>(slot: &mut Option<Session>, pool: &mut V)
    requires { IsReadySlot slot.old (V.view.outline pool.old) (V.view.more pool.old) }
    ensures gone { slot.new ≡ None }
    ensures keeps { (n : ℕ) → KeepsServing V.view n slot.old pool.old None pool.new }
    ensures leaves { (n : ℕ) (at : Sessions) → at n ≡ shown slot.old → LeaveTo V.view at pool.old (put at n (state Phase.Ended [])) pool.new }
{
    match slot.take() {
        None => {}
        Some(session) => session.leave(pool),
    }
}
