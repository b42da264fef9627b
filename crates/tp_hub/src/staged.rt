//! A hub that many ask, whose pool may be in the middle of a commit.

ghost use Rattle.std.specs.Prelude.{◌≡◌, ◌<◌, ◌≤◌, ◌+◌, ℕ, List, [], Option, None, Some, IfSome, MatchOption, Ok, false, is_some, length, true};
ghost use Rattle.tp_model.specs.Clauses.{Unkept};
ghost use Rattle.tp_model.specs.Flushing.{IsFlushing};
ghost use Rattle.tp_model.specs.Calls.{is_failed};
ghost use Rattle.tp_msg.specs.Asked.{call_of};
ghost use Rattle.tp_msg.specs.Messages.{reading};
ghost use Rattle.nbd_session.specs.Session.{has_older};
ghost use Rattle.tp_hub.specs.declared.staged.Stage.TheVariants.{Whole};
ghost use Rattle.tp_hub.specs.Desks.{IsAsked, RunsSo};
ghost use Rattle.tp_hub.specs.Parts.{IsIdle, IsInBatch, is_parted_to};
ghost use Rattle.tp_hub.specs.Places.{IsAskedStill};
ghost use Rattle.tp_hub.specs.Runs.{Brings, Orders, incoming, session_of};
ghost use Rattle.tp_hub.specs.Serving.{HubState, Serves, sessions_of};
ghost use Rattle.tp_hub.specs.Staged.{AsksCommit, HasFewer, IsBefore, IsKeptFor, IsRead, MakesFlush, message_in, most_kept, standing};
ghost use Rattle.tp_hub.specs.Stages.{IsFlushAsked, IsBehind, IsFor, IsFurther, IsKept, IsOrderParted, IsOrderPool, IsParted, IsPool, IsServing, is_done, is_there, is_whole, parts_at};
ghost use Rattle.tp_hub.specs.Told.{HasRoom, IsWider};

use crate::answers::Answers;
use crate::event::Event;
use crate::flushed::{answer_flush, tell_answer};
use crate::hub::{Hub, Ran, SESSIONS, at_flush, at_work, older, take_batch, to_flush};
use crate::seat::{Seat, seat_at};
use crate::shared::ask_place;
use nbd_session::Session;
use std::alloc::Global;
use std::marker::{Brand, Model, PhantomData};
use std::mem;
use tp_model::{Flushing, Mode, Refusal, SharedReads, SharedVolumes, Staged, Volumes};
use tp_msg::{Managed, Message, read_message};

/// States, for contracts alone, which hub was put behind a lock. The caller picks it as a type.
pub trait Start<V> {
    ghost is_start: { HubState V → Type 0 };
}

impl<V> Start<V> for Brand {
    ghost is_start = { λ hub. Unit {0} };
}

/// A pool between two events, or in the middle of a commit, or away while a part of one is made.
#[derive(Drop)]
enum Stage<V, M> {
    Whole(V),
    Midway(M),
    Away,
}

/// Sessions over a pool of which commits are made in parts, between which others may look at it.
///
/// A commit is a flush that an event asks for, or a message with the flush behind it. READs and
/// BLOCK_STATUSes in the middle of a flush are answered as before it. In the middle of a message
/// they are answered as by the changed pool. A message changes no volume that a session has open, so
/// each is one of the hub before it (`tp_model::unkept_calls_are_flushed`).
///
/// The hub came of the one that `K` states, by one run for each event.
#[derive(Drop)]
pub struct StagedHub<V: Staged, K: Start<V>> {
    stage: Stage<V, V::Midway>,
    sessions: [Option<Session>; SESSIONS],
    /// The message of the commit that is under way. None where that is a flush.
    order: Option<Message>,
    of: PhantomData<K>,
}

impl<V: Staged, K: Start<V>> Model for StagedHub<V, K> {
    ghost use Rattle.tp_hub.specs.Staged.{Standing, Stands, standing};

    ghost Value = { Standing V };

    ghost view = { λ h. standing V.Midway.of V.Midway.left h.stage h.sessions h.order };

    ghost invariant = { λ h. Stands V.view K.is_start (standing V.Midway.of V.Midway.left h.stage h.sessions h.order) };
}

// ---- the pool

/// Whether no commit is under way.
fn is_whole<V, M>(stage: &Stage<V, M>) -> bool
    ensures { result ≡ is_whole stage.now }
{
    match stage {
        Stage::Whole(_) => true,
        Stage::Midway(_) | Stage::Away => false,
    }
}

/// Puts a pool back into its place, which is empty.
fn put<V, M>(place: &mut Stage<V, M>, stage: Stage<V, M>)
    requires { is_there place.old ≡ false }
    ensures { place.new ≡ stage }
{
    match mem::replace(place, stage) {
        Stage::Away => {}
        Stage::Whole(_) | Stage::Midway(_) => unreachable!(),
    }
}

/// What is left of a flush, if it is to be made to its end.
fn rest<V: Staged>(flushing: Flushing<V, V::Midway>, is_last: bool) -> Flushing<V, V::Midway>
    ensures same { (old : V) → IsFlushing V.view V.Midway.of old flushing → IsFlushing V.view V.Midway.of old result }
    ensures fewer { (before : Option ℕ) → IsFurther V.Midway.left before flushing → IsFurther V.Midway.left before result }
    ensures last { is_last ≡ true → is_done result ≡ true }
{
    if !is_last {
        return flushing;
    }
    match flushing {
        Flushing::Done(pool, answer) => Flushing::Done(pool, answer),
        Flushing::Midway(midway) => {
            let (pool, answer) = V::end_flush(midway);
            Flushing::Done(pool, answer)
        }
    }
}

/// The next part of a flush, the first one if none is under way, or all that are left.
fn part<V: Staged>(stage: Stage<V, V::Midway>, is_last: bool) -> Flushing<V, V::Midway>
    requires { is_there stage ≡ true }
    ensures part { (old : V) → IsPool V.Midway.of old stage → IsFlushing V.view V.Midway.of old result }
    ensures fewer { IsFurther V.Midway.left (parts_at V.Midway.left stage) result }
    ensures last { is_last ≡ true → is_done result ≡ true }
{
    match stage {
        Stage::Whole(pool) => rest(pool.begin_flush(), is_last),
        Stage::Midway(midway) => rest(V::go_on(midway), is_last),
        Stage::Away => unreachable!(),
    }
}

/// Makes that part of the pool at a place: the flush's answer where no part is left.
fn go_on<V: Staged>(place: &mut Stage<V, V::Midway>, is_last: bool) -> Option<Result<(), Refusal>>
    requires { is_there place.old ≡ true }
    ensures part { (old : V) → IsPool V.Midway.of old place.old → IsParted V.view V.Midway.of old place.new result }
    ensures fewer { result ≡ None → HasFewer (parts_at V.Midway.left place.old) (parts_at V.Midway.left place.new) }
    ensures last { is_last ≡ true → result ≡ None → ⊥ }
{
    match part(mem::replace(place, Stage::Away), is_last) {
        Flushing::Done(pool, answer) => {
            put(place, Stage::Whole(pool));
            Some(answer)
        }
        Flushing::Midway(midway) => {
            put(place, Stage::Midway(midway));
            None
        }
    }
}

/// The pool behind all that is left of a commit.
fn finished<V: Staged>(stage: Stage<V, V::Midway>) -> V
    requires { is_there stage ≡ true }
    ensures { IsBehind V.view V.Midway.of stage result }
{
    match stage {
        Stage::Whole(pool) => pool,
        Stage::Midway(midway) => {
            let (pool, _) = V::end_flush(midway);
            pool
        }
        Stage::Away => unreachable!(),
    }
}

/// Makes all that is left of a commit.
fn settle<V: Staged>(place: &mut Stage<V, V::Midway>)
    requires { is_there place.old ≡ true }
    ensures { (q : V) × (place.new ≡ Whole q) × IsBehind V.view V.Midway.of place.old q }
{
    if is_whole(place) {
        return;
    }
    let pool = finished(mem::replace(place, Stage::Away));
    put(place, Stage::Whole(pool));
}

// ---- what asks for a commit

/// Whether the session of a number makes a FLUSH next, by a piece.
fn makes_flush(sessions: &[Option<Session>; SESSIONS], number: u8, piece: &[u8]) -> bool
    requires count { length sessions.now ≡ 64 }
    requires number { number < 64 }
    ensures makes { result ≡ true → MakesFlush (sessions_of sessions.now number) piece.now }
    ensures other { result ≡ false → MakesFlush (sessions_of sessions.now number) piece.now → ⊥ }
{
    if at_flush(sessions, number, piece) {
        return true;
    }
    if piece.len() > 0 {
        return false;
    }
    to_flush(sessions, number)
}

/// Whether an event asks for a flush.
fn asks_flush(sessions: &[Option<Session>; SESSIONS], event: &Event<'_>) -> bool
    requires count { length sessions.now ≡ 64 }
    requires number { session_of event.now < 64 }
    ensures asks { result ≡ true → IsFlushAsked (sessions_of sessions.now) event.now }
    ensures other { result ≡ false → IsFlushAsked (sessions_of sessions.now) event.now → ⊥ }
{
    match *event {
        Event::Flush => true,
        Event::Parted(number, piece) => makes_flush(sessions, number, piece),
        _ => false,
    }
}

/// Whether an event asks for a commit.
fn asks_commit(sessions: &[Option<Session>; SESSIONS], event: &Event<'_>) -> bool
    requires count { length sessions.now ≡ 64 }
    requires number { session_of event.now < 64 }
    ensures asks { result ≡ true → AsksCommit (sessions_of sessions.now) event.now }
    ensures other { result ≡ false → AsksCommit (sessions_of sessions.now) event.now → ⊥ }
{
    match *event {
        Event::Message(line) => read_message(line).is_ok(),
        _ => asks_flush(sessions, event),
    }
}

/// Whether a part of this commit may be made: of one that keeps a message, or of a flush. So it is
/// where none is under way, and where it is the one under way.
fn is_for<V, M>(stage: &Stage<V, M>, order: Option<Message>, asked: Option<Message>) -> bool
    ensures its { result ≡ true → IsFor stage.now order asked }
    ensures other { result ≡ false → IsFor stage.now order asked → ⊥ }
{
    match stage {
        Stage::Whole(_) => true,
        Stage::Midway(_) => order == asked,
        Stage::Away => false,
    }
}

// ---- a part of a commit

/// Answers an event that asks for a flush as the flush was answered that was made for it.
fn answer_on<V: Staged>(
    place: &Stage<V, V::Midway>,
    sessions: &mut [Option<Session>; SESSIONS],
    event: &Event<'_>,
    answer: Result<(), Refusal>,
    out: &mut Answers,
) -> Ran
    requires number { session_of event.now < 64 }
    requires room { HasRoom out.old }
    requires asks { IsFlushAsked (sessions_of sessions.old) event.now }
    requires flushed { (p : V) × IsParted V.view V.Midway.of p place.now (Some answer) × Serves (V.view.outline p) (V.view.more p) sessions.old }
    ensures { (p : V) → IsParted V.view V.Midway.of p place.now (Some answer) → IsKept V.view p sessions.old (incoming event.now) result out.old out.new place.now sessions.new }
{
    match place {
        Stage::Whole(pool) => answer_flush(sessions, pool, event, answer, out),
        Stage::Midway(_) | Stage::Away => unreachable!(),
    }
}

/// Makes the next part of a flush for an event that asks for one, and answers the event if no part is
/// left.
fn flush_on<V: Staged>(
    place: &mut Stage<V, V::Midway>,
    sessions: &mut [Option<Session>; SESSIONS],
    event: &Event<'_>,
    is_last: bool,
    out: &mut Answers,
) -> Option<Ran>
    requires there { is_there place.old ≡ true }
    requires number { session_of event.now < 64 }
    requires room { HasRoom out.old }
    requires asks { IsFlushAsked (sessions_of sessions.old) event.now }
    requires pool { (p : V) × IsPool V.Midway.of p place.old × Serves (V.view.outline p) (V.view.more p) sessions.old }
    ensures kept { (p : V) → IsPool V.Midway.of p place.old → MatchOption result
        (IsParted V.view V.Midway.of p place.new None × (sessions.new ≡ sessions.old) × (out.new ≡ out.old))
        (λ ran. IsKept V.view p sessions.old (incoming event.now) ran out.old out.new place.new sessions.new) }
    ensures fewer { result ≡ None → HasFewer (parts_at V.Midway.left place.old) (parts_at V.Midway.left place.new) }
    ensures few { IfSome result (λ ran. (p : V) (q : V) → IsPool V.Midway.of p place.old → place.new ≡ Whole q → V.view.flushes q ≤ V.view.flushes p + 2) }
    ensures last { is_last ≡ true → result ≡ None → ⊥ }
{
    match go_on(place, is_last) {
        None => None,
        Some(answer) => Some(answer_on(place, sessions, event, answer, out)),
    }
}

/// Makes what a message asks for, but for the flush that keeps it, of a pool that is whole. Its answer
/// where that is all of it.
fn change_on<V: Managed + Staged>(
    place: &mut Stage<V, V::Midway>,
    message: &Message,
) -> Option<Result<(), Refusal>>
    requires { is_there place.old ≡ true }
    ensures there { is_there place.new ≡ true }
    ensures parts { parts_at V.Midway.left place.new ≡ parts_at V.Midway.left place.old }
    ensures changed { (p : V) → IsOrderPool V.view V.Midway.of message.now p place.old → MatchOption result
        ((q : V) × IsPool V.Midway.of q place.new × Unkept V.view p q (call_of message.now))
        (λ answer. IsOrderParted V.view V.Midway.of message.now p place.new (Some answer)) }
{
    match place {
        Stage::Whole(pool) => pool.change(message),
        Stage::Midway(_) => None,
        Stage::Away => unreachable!(),
    }
}

/// Makes the next part of a message, the first one if none is under way, or all that are left: its
/// answer if no part is left.
fn order_on<V: Managed + Staged>(
    place: &mut Stage<V, V::Midway>,
    message: &Message,
    is_last: bool,
) -> Option<Result<(), Refusal>>
    requires { is_there place.old ≡ true }
    ensures ordered { (p : V) → IsOrderPool V.view V.Midway.of message.now p place.old → IsOrderParted V.view V.Midway.of message.now p place.new result }
    ensures fewer { result ≡ None → HasFewer (parts_at V.Midway.left place.old) (parts_at V.Midway.left place.new) }
    ensures last { is_last ≡ true → result ≡ None → ⊥ }
{
    match change_on(place, message) {
        Some(answer) => Some(answer),
        None => go_on(place, is_last),
    }
}

/// Makes the next part of the flush that an event asks for, if it does, and no other commit is under
/// way.
fn flush_for<V: Staged>(
    place: &mut Stage<V, V::Midway>,
    sessions: &mut [Option<Session>; SESSIONS],
    order: &mut Option<Message>,
    event: &Event<'_>,
    is_last: bool,
    out: &mut Answers,
) -> Option<Ran>
    requires number { session_of event.now < 64 }
    requires room { HasRoom out.old }
    requires before { IsServing V.view (standing V.Midway.of V.Midway.left place.old sessions.old order.old) }
    ensures kept { (old : HubState V) → IsBefore V.view old (standing V.Midway.of V.Midway.left place.old sessions.old order.old)
        → IsKeptFor V.view old (incoming event.now) result out.old out.new (standing V.Midway.of V.Midway.left place.new sessions.new order.new) }
    ensures read { IsRead (standing V.Midway.of V.Midway.left place.old sessions.old order.old) → IsRead (standing V.Midway.of V.Midway.left place.new sessions.new order.new) }
    ensures asks { IfSome result (λ ran. IsFlushAsked (sessions_of sessions.old) event.now × IsFor place.old order.old None) }
    ensures few { IfSome result (λ ran. (old : HubState V) (q : V) → IsBefore V.view old (standing V.Midway.of V.Midway.left place.old sessions.old order.old) → place.new ≡ Whole q
        → V.view.flushes q ≤ V.view.flushes old.pool + most_kept (message_in event.now)) }
    ensures unasked { (IsFlushAsked (sessions_of sessions.old) event.now → IsFor place.old order.old None → ⊥) → (place.new ≡ place.old) × (sessions.new ≡ sessions.old) × (order.new ≡ order.old) }
    ensures fewer { IsFlushAsked (sessions_of sessions.old) event.now → IsFor place.old order.old None → result ≡ None
        → HasFewer (parts_at V.Midway.left place.old) (parts_at V.Midway.left place.new) }
    ensures order { IsFlushAsked (sessions_of sessions.old) event.now → IsFor place.old order.old None → order.new ≡ None }
    ensures made { is_last ≡ true → IsFlushAsked (sessions_of sessions.old) event.now → IsFor place.old order.old None → result ≡ None → ⊥ }
{
    if !asks_flush(sessions, event) {
        return None;
    }
    if !is_for(place, *order, None) {
        return None;
    }
    *order = None;
    flush_on(place, sessions, event, is_last, out)
}

/// Makes the next part of a message, if no other commit is under way.
fn order_for<V: Managed + Staged>(
    place: &mut Stage<V, V::Midway>,
    sessions: &[Option<Session>; SESSIONS],
    order: &mut Option<Message>,
    message: &Message,
    is_last: bool,
    out: &mut Answers,
) -> Option<Ran>
    requires room { HasRoom out.old }
    requires before { IsServing V.view (standing V.Midway.of V.Midway.left place.old sessions.now order.old) }
    ensures kept { (line : List ℕ) → reading line ≡ Ok message.now → (old : HubState V) → IsBefore V.view old (standing V.Midway.of V.Midway.left place.old sessions.now order.old)
        → IsKeptFor V.view old (Orders line) result out.old out.new (standing V.Midway.of V.Midway.left place.new sessions.now order.new) }
    ensures read { (line : List ℕ) → reading line ≡ Ok message.now → IsRead (standing V.Midway.of V.Midway.left place.old sessions.now order.old) → IsRead (standing V.Midway.of V.Midway.left place.new sessions.now order.new) }
    ensures its { IfSome result (λ ran. IsFor place.old order.old (Some message.now)) }
    ensures few { IfSome result (λ ran. (old : HubState V) (q : V) → IsBefore V.view old (standing V.Midway.of V.Midway.left place.old sessions.now order.old) → place.new ≡ Whole q
        → V.view.flushes q ≤ V.view.flushes old.pool + most_kept (Some message.now)) }
    ensures other { (IsFor place.old order.old (Some message.now) → ⊥) → (place.new ≡ place.old) × (order.new ≡ order.old) }
    ensures fewer { IsFor place.old order.old (Some message.now) → result ≡ None → HasFewer (parts_at V.Midway.left place.old) (parts_at V.Midway.left place.new) }
    ensures order { IsFor place.old order.old (Some message.now) → order.new ≡ Some message.now }
    ensures made { is_last ≡ true → IsFor place.old order.old (Some message.now) → result ≡ None → ⊥ }
{
    if !is_for(place, *order, Some(*message)) {
        return None;
    }
    *order = Some(*message);
    match order_on(place, message, is_last) {
        None => None,
        Some(answer) => {
            tell_answer(answer, out);
            Some(Ran {
                events: 1,
                bytes: 0,
            })
        }
    }
}

/// Makes the next part of the commit that an event asks for, if it does, and no other commit is under
/// way.
fn keep_on<V: Managed + Staged>(
    place: &mut Stage<V, V::Midway>,
    sessions: &mut [Option<Session>; SESSIONS],
    order: &mut Option<Message>,
    event: &Event<'_>,
    is_last: bool,
    out: &mut Answers,
) -> Option<Ran>
    requires number { session_of event.now < 64 }
    requires room { HasRoom out.old }
    requires before { IsServing V.view (standing V.Midway.of V.Midway.left place.old sessions.old order.old) }
    ensures kept { (old : HubState V) → IsBefore V.view old (standing V.Midway.of V.Midway.left place.old sessions.old order.old)
        → IsKeptFor V.view old (incoming event.now) result out.old out.new (standing V.Midway.of V.Midway.left place.new sessions.new order.new) }
    ensures read { IsRead (standing V.Midway.of V.Midway.left place.old sessions.old order.old) → IsRead (standing V.Midway.of V.Midway.left place.new sessions.new order.new) }
    ensures asks { IfSome result (λ ran. AsksCommit (sessions_of sessions.old) event.now × IsFor place.old order.old (message_in event.now)) }
    ensures few { IfSome result (λ ran. (old : HubState V) (q : V) → IsBefore V.view old (standing V.Midway.of V.Midway.left place.old sessions.old order.old) → place.new ≡ Whole q
        → V.view.flushes q ≤ V.view.flushes old.pool + most_kept (message_in event.now)) }
    ensures unasked { (AsksCommit (sessions_of sessions.old) event.now → IsFor place.old order.old (message_in event.now) → ⊥)
        → (place.new ≡ place.old) × (sessions.new ≡ sessions.old) × (order.new ≡ order.old) }
    ensures fewer { AsksCommit (sessions_of sessions.old) event.now → IsFor place.old order.old (message_in event.now) → result ≡ None
        → HasFewer (parts_at V.Midway.left place.old) (parts_at V.Midway.left place.new) }
    ensures order { AsksCommit (sessions_of sessions.old) event.now → IsFor place.old order.old (message_in event.now) → order.new ≡ message_in event.now }
    ensures made { is_last ≡ true → AsksCommit (sessions_of sessions.old) event.now → IsFor place.old order.old (message_in event.now) → result ≡ None → ⊥ }
{
    match *event {
        Event::Message(line) => match read_message(line) {
            Err(_) => None,
            Ok(message) => order_for(place, sessions, order, &message, is_last, out),
        },
        _ => flush_for(place, sessions, order, event, is_last, out),
    }
}

/// Takes one event of a hub that makes no commit, of a piece a batch at most.
fn take_on<V: Managed + Staged>(
    place: &mut Stage<V, V::Midway>,
    sessions: &mut [Option<Session>; SESSIONS],
    alloc: Global,
    event: Event<'_>,
    out: &mut Answers,
) -> Ran
    requires whole { is_whole place.old ≡ true }
    requires number { session_of event < 64 }
    requires serves { (p : V) → IsPool V.Midway.of p place.old → Serves (V.view.outline p) (V.view.more p) sessions.old }
    ensures took { (p : V) → IsPool V.Midway.of p place.old → IsKept V.view p sessions.old (incoming event.entry) result out.old out.new place.new sessions.new }
    ensures few { IsInBatch (sessions_of sessions.old) event.entry result.events result.bytes }
    ensures idle { (n : ℕ) → is_parted_to n event.entry ≡ false → IsIdle (sessions_of sessions.old) n → IsIdle (sessions_of sessions.new) n }
    ensures made { (n : ℕ) → is_parted_to n event.entry ≡ false → incoming event.entry ≡ Brings n [] → 0 < result.events → IsIdle (sessions_of sessions.new) n }
{
    match place {
        Stage::Whole(pool) => take_batch(sessions, pool, alloc, event, out),
        Stage::Midway(_) | Stage::Away => unreachable!(),
    }
}

/// The READs and BLOCK_STATUSes with which a piece begins.
fn look_on<V: Staged>(
    place: &Stage<V, V::Midway>,
    sessions: &[Option<Session>; SESSIONS],
    number: u8,
    piece: &[u8],
    out: &mut Answers,
) -> Option<Ran>
    requires there { is_there place.now ≡ true }
    requires number { number < 64 }
    requires serves { (p : V) → IsPool V.Midway.of p place.now → Serves (V.view.outline p) (V.view.more p) sessions.now }
    ensures asked { (p : V) → IsPool V.Midway.of p place.now → IfSome result (λ r. IsAskedStill V.view number piece.now (sessions_of sessions.now) p r.events r.bytes out.old out.new) }
    ensures none { result ≡ None → IsWider out.old out.new }
{
    match place {
        Stage::Whole(pool) => ask_place(sessions, pool, number, piece, out),
        Stage::Midway(midway) => ask_place(sessions, midway, number, piece, out),
        Stage::Away => unreachable!(),
    }
}

/// Whether a pool has failed.
fn has_failed<V: Volumes>(pool: &V) -> bool
    ensures { result ≡ is_failed (V.view.outline pool.now).mode }
{
    pool.mode() == Mode::Failed
}

/// A pool that is whole, if it has failed.
fn failed_pool<V: Volumes, M>(stage: &Stage<V, M>) -> Option<&V>
    ensures some { IfSome result (λ pool. (stage.now ≡ Whole pool.now) × (is_failed (V.view.outline pool.now).mode ≡ true)) }
    ensures none { result ≡ None → (p : V) → stage.now ≡ Whole p → is_failed (V.view.outline p).mode ≡ false }
{
    match stage {
        Stage::Whole(pool) if has_failed(pool) => Some(pool),
        Stage::Whole(_) | Stage::Midway(_) | Stage::Away => None,
    }
}

/// Whether a session waits with its READs and BLOCK_STATUSes: in the middle of a message, where it is
/// told since an older volume.
fn waits<V, M>(
    stage: &Stage<V, M>,
    order: &Option<Message>,
    sessions: &[Option<Session>; SESSIONS],
    number: u8,
) -> bool
    requires count { length sessions.now ≡ 64 }
    requires number { number < 64 }
    ensures { is_whole stage.now ≡ false → is_some order.now ≡ true → has_older (sessions_of sessions.now number).phase ≡ true → result ≡ true }
{
    if is_whole(stage) {
        return false;
    }
    order.is_some() && older(sessions, number)
}

impl<V: Staged, K: Start<V>> StagedHub<V, K> {
    ghost use Rattle.std.specs.Prelude.{◌≡◌, ◌<◌, IfSome, None, true, false};
    ghost use Rattle.nbd_session.specs.Session.{has_older, is_at_work, is_to_flush};
    ghost use Rattle.tp_model.specs.Calls.{is_failed};
    ghost use Rattle.tp_hub.specs.Desks.{IsAsked};
    ghost use Rattle.tp_hub.specs.Runs.{Brings, session_of};
    ghost use Rattle.tp_hub.specs.Seats.{seat_at};
    ghost use Rattle.tp_hub.specs.Serve.{HubRuns};
    ghost use Rattle.tp_hub.specs.Serving.{HubState, sessions_of};
    ghost use Rattle.tp_hub.specs.Staged.{AsksCommit, Idle, IsFrom, IsOf, IsSettled, is_ordering, slots_of};
    ghost use Rattle.tp_hub.specs.Told.{IsWider};

    /// A hub of which no commit is under way.
    #[inline(never)]
    pub fn new(hub: Hub<V>) -> StagedHub<V, K>
        requires { K.is_start hub }
        ensures { result ≡ Idle hub }
    {
        let (pool, sessions) = hub.into_parts();
        StagedHub {
            stage: Stage::Whole(pool),
            sessions,
            order: None,
            of: PhantomData,
        }
    }

    /// The hub behind all that is left of a commit.
    #[inline(never)]
    pub fn into_hub(self) -> Hub<V>
        ensures settled { IsSettled V.view self result }
        ensures from { IsFrom V.view K.is_start result }
    {
        let StagedHub {
            stage,
            sessions,
            order: _,
            of: _,
        } = self;
        Hub::of_parts(finished(stage), sessions)
    }

    /// Who is at a number.
    pub fn seat(&self, number: u8) -> Seat
        requires { number < 64 }
        ensures { result ≡ seat_at (slots_of self.now) number }
    {
        seat_at(&self.sessions, number)
    }

    /// Whether a session has parts of a request left, and whether that is a FLUSH alone.
    pub fn left(&self, number: u8) -> (bool, bool)
        requires { number < 64 }
        ensures work { result.0 ≡ is_at_work (sessions_of (slots_of self.now) number).phase }
        ensures flush { result.1 ≡ is_to_flush (sessions_of (slots_of self.now) number).phase }
    {
        let is_at_work = at_work(&self.sessions, number);
        let is_to_flush = to_flush(&self.sessions, number);
        (is_at_work, is_to_flush)
    }

    /// Whether an event asks for a commit that can be made in parts ([`StagedHub::keep`]): a flush, or
    /// a message.
    pub fn asks_commit(&self, event: &Event<'_>) -> bool
        requires { session_of event.now < 64 }
        ensures asks { result ≡ true → AsksCommit (sessions_of (slots_of self.now)) event.now }
        ensures other { result ≡ false → AsksCommit (sessions_of (slots_of self.now)) event.now → ⊥ }
    {
        asks_commit(&self.sessions, event)
    }

    /// Its pool, if that has failed. None also in the middle of a commit.
    pub fn failed_pool(&self) -> Option<&V>
        ensures some { IfSome result (λ pool. (hub : HubState V) × (self.now ≡ Idle hub) × (pool.now ≡ hub.pool) × (is_failed (V.view.outline hub.pool).mode ≡ true)) }
        ensures none { result ≡ None → (hub : HubState V) → self.now ≡ Idle hub → is_failed (V.view.outline hub.pool).mode ≡ false }
    {
        failed_pool(&self.stage)
    }

    /// Takes READs and BLOCK_STATUSes as [`Hub::ask_shared`] of the hub that READs see. In the middle
    /// of a message a session waits that compares its volume with an older one.
    pub fn ask_shared(&self, number: u8, piece: &[u8], out: &mut Answers) -> Option<Ran>
        requires { number < 64 }
        ensures asked { IfSome result (λ ran. (hub : HubState V) × IsOf hub self.now × IsAsked (λ took answers. HubRuns V.view hub took answers hub)
            (Brings number piece.now) ran.events ran.bytes out.old out.new) }
        ensures none { result ≡ None → IsWider out.old out.new }
        ensures waits { is_ordering self.now ≡ true → has_older (sessions_of (slots_of self.now) number).phase ≡ true → result ≡ None }
    {
        if waits(&self.stage, &self.order, &self.sessions, number) {
            return None;
        }
        look_on(&self.stage, &self.sessions, number, piece, out)
    }

    /// Brings to the device what was written so far, while READs are taken beside it. Nothing is
    /// promised of it.
    pub fn sync_ahead(&self) {
        match &self.stage {
            Stage::Whole(pool) => pool.sync_ahead(),
            Stage::Midway(midway) => midway.sync_beside(),
            Stage::Away => {}
        }
    }
}

impl<V: Managed + Staged, K: Start<V>> StagedHub<V, K> {
    ghost use Rattle.std.specs.Prelude.{◌≡◌, ◌<◌, ◌≤◌, ◌+◌, ℕ, [], IfSome, None, true, false};
    ghost use Rattle.tp_hub.specs.Desks.{IsAsked};
    ghost use Rattle.tp_hub.specs.Parts.{IsIdle, IsInBatch, is_parted_to};
    ghost use Rattle.tp_hub.specs.Owed.{RunsOwed};
    ghost use Rattle.tp_hub.specs.Runs.{Brings, incoming, session_of};
    ghost use Rattle.tp_hub.specs.Serving.{HubState, sessions_of};
    ghost use Rattle.tp_hub.specs.Staged.{HasFewer, Idle, IsBefore, IsForEvent, IsKeptFor, IsSettled, MayKeep, message_in, most_kept, parts_of, slots_of};
    ghost use Rattle.tp_hub.specs.Told.{HasRoom, IsWider};

    /// Makes the next part of the commit that an event asks for: the first one if none is under way,
    /// and all that are left if this is to be the last. Answers the event if no part is left.
    ///
    /// None if parts are left, and then each call leaves fewer. None also if the event asks for no
    /// commit, or if another one is under way, and then nothing is done.
    ///
    /// A commit flushes the disk twice at most, or four times for a message that wants blocks which a
    /// commit before it frees.
    pub fn keep(&mut self, event: &Event<'_>, is_last: bool, out: &mut Answers) -> Option<Ran>
        requires number { session_of event.now < 64 }
        requires room { HasRoom out.old }
        ensures before { (old : HubState V) × IsBefore V.view old self.old }
        ensures kept { (old : HubState V) → IsBefore V.view old self.old → IsKeptFor V.view old (incoming event.now) result out.old out.new self.new }
        ensures asks { IfSome result (λ ran. MayKeep event.now self.old) }
        ensures owed { IfSome result (λ ran. (old : HubState V) (new : HubState V) → IsBefore V.view old self.old → self.new ≡ Idle new
            → V.view.flushes new.pool ≤ V.view.flushes old.pool + most_kept (message_in event.now)) }
        ensures unasked { (MayKeep event.now self.old → ⊥) → self.new ≡ self.old }
        ensures fewer { MayKeep event.now self.old → result ≡ None → HasFewer (parts_of self.old) (parts_of self.new) }
        ensures its { MayKeep event.now self.old → IsForEvent event.now self.new }
        ensures made { is_last ≡ true → MayKeep event.now self.old → result ≡ None → ⊥ }
    {
        keep_on(
            &mut self.stage,
            &mut self.sessions,
            &mut self.order,
            event,
            is_last,
            out,
        )
    }

    /// Makes all that is left of a commit, and takes one event behind it, of a piece that may be parted
    /// no more than a batch of its session.
    ///
    /// The disk is flushed for a call that ends in a commit, for want of blocks, and for nothing else:
    /// neither for a READ, a BLOCK_STATUS, an option such as LIST or a line that asks, nor for bytes of
    /// which no frame is whole.
    pub fn take(&mut self, alloc: Global, event: Event<'_>, out: &mut Answers) -> Ran
        requires { session_of event < 64 }
        ensures asked { (mid : HubState V) × (new : HubState V) × IsSettled V.view self.old mid × (self.new ≡ Idle new)
            × IsAsked (λ took answers. RunsOwed V.view mid took answers new) (incoming event.entry) result.events result.bytes out.old out.new }
        ensures few { IsInBatch (sessions_of (slots_of self.old)) event.entry result.events result.bytes }
        ensures idle { (n : ℕ) → is_parted_to n event.entry ≡ false → IsIdle (sessions_of (slots_of self.old)) n → IsIdle (sessions_of (slots_of self.new)) n }
        ensures made { (n : ℕ) → is_parted_to n event.entry ≡ false → incoming event.entry ≡ Brings n [] → 0 < result.events → IsIdle (sessions_of (slots_of self.new)) n }
    {
        settle(&mut self.stage);
        take_on(&mut self.stage, &mut self.sessions, alloc, event, out)
    }
}
