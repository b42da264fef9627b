//! Many sessions over the volumes of one pool.

ghost use Rattle.std.specs.Prelude.{◌≡◌, ◌<◌, ◌≤◌, ℕ, [], true, false, length, map, drop, All, IfSome, None, is_some};
ghost use Rattle.std.specs.FinMap.{empty};
ghost use Rattle.tp_model.specs.Clauses.{PoolCall};
ghost use Rattle.tp_hub.specs.Runs.{Brings, IsPartOfNext, IsShortOfNext, Runs, incoming, session_of, taken_of};
ghost use Rattle.tp_hub.specs.Desks.{IsAsked, RunsSo};
ghost use Rattle.tp_hub.specs.Parts.{BringIdle, IsIdle, IsInBatch, StayIdle, is_parted_to};
ghost use Rattle.tp_hub.specs.Places.{TakesEvent, one_if};
ghost use Rattle.nbd_session.specs.Batches.{IsBatchOf};
ghost use Rattle.nbd_session.specs.Flushes.{IsAtFlush};
ghost use Rattle.nbd_session.specs.Session.{has_older, is_at_work, is_to_flush};
ghost use Rattle.tp_hub.specs.Serve.{AreAllOpen, IsLeastFree};
ghost use Rattle.tp_hub.specs.Serving.{AllLeave, Serves, sessions_of, slot_at};

use crate::answers::Answers;
use crate::event::Event;
use crate::orders::{
    take_delta, take_flush, take_map, take_message, take_size, take_status, take_thin_status,
};
use crate::seat::{Seat, seat_at};
use crate::shared::ask_place;
use crate::slot::{Took, hear_slot, leave_place, leave_slot, open_slot};
use nbd_session::Session;
use std::alloc::Global;
use std::marker::Model;
use tp_model::{Cloned, SharedVolumes, Volumes};
use tp_msg::Managed;

/// A hub has at most this many sessions.
pub const SESSIONS: usize = 64;

/// How many events were taken, and how many bytes of the next.
#[derive(Clone, Copy, Debug, PartialEq, Eq)]
pub struct Ran {
    pub events: usize,
    pub bytes: usize,
}

/// Sessions over the volumes of one pool.
#[derive(Drop)]
pub struct Hub<V: Volumes> {
    pool: V,
    sessions: [Option<Session>; SESSIONS],
}

impl<V: Volumes> Model for Hub<V> {
    ghost use Rattle.tp_hub.specs.Serving.{HubState, Serves};

    ghost Value = { HubState V };

    ghost view = { λ h. record { pool = h.pool; slots = h.sessions } };

    ghost invariant = { λ h. Serves (V.view.outline h.pool) (V.view.more h.pool) h.sessions };
}

impl<V: Volumes> Hub<V> {
    ghost use Rattle.std.specs.Prelude.{◌≡◌, ◌<◌, None, IfSome};
    ghost use Rattle.nbd_session.specs.Session.{is_at_work, is_to_flush};
    ghost use Rattle.tp_hub.specs.Serve.{AreAllOpen, IsLeastFree};
    ghost use Rattle.std.specs.FinMap.{empty};
    ghost use Rattle.nbd_session.specs.Turns.{closed};
    ghost use Rattle.tp_hub.specs.Seats.{seat_at};
    ghost use Rattle.tp_hub.specs.Serving.{HubState, Serves, sessions_of};

    /// A hub with no session. It takes no memory.
    pub fn new(pool: V) -> Hub<V>
        requires { (V.view.outline pool).holds ≡ empty }
        ensures pool { result.pool ≡ pool }
        ensures sessions { sessions_of result.slots ≡ closed }
    {
        Hub {
            pool,
            sessions: std::array::from_fn(no_session),
        }
    }

    /// The least number that is not open, or None where all 64 are.
    pub fn free_number(&self) -> Option<u8>
        ensures free { IfSome result (λ n. IsLeastFree self.now.slots n) }
        ensures none { result ≡ None → AreAllOpen self.now.slots }
    {
        least_free(&self.sessions)
    }

    /// Whether a session has parts of a request left.
    pub fn is_at_work(&self, number: u8) -> bool
        requires { number < 64 }
        ensures { result ≡ is_at_work (sessions_of self.now.slots number).phase }
    {
        at_work(&self.sessions, number)
    }

    /// Whether nothing but a FLUSH is left of a session's request, which keeps what was written.
    pub fn is_to_flush(&self, number: u8) -> bool
        requires { number < 64 }
        ensures { result ≡ is_to_flush (sessions_of self.now.slots number).phase }
    {
        to_flush(&self.sessions, number)
    }

    /// Who is at a number.
    pub fn seat(&self, number: u8) -> Seat
        requires { number < 64 }
        ensures { result ≡ seat_at self.now.slots number }
    {
        seat_at(&self.sessions, number)
    }

    /// Its pool, to look at.
    pub fn pool(&self) -> &V
        ensures { result.now ≡ self.now.pool }
    {
        &self.pool
    }

    /// Its pool and its sessions, which go on. Inlined, its moves of all sessions cost LLVM minutes.
    #[inline(never)]
    pub(crate) fn into_parts(self) -> (V, [Option<Session>; SESSIONS])
        ensures pool { result.0 ≡ self.pool }
        ensures slots { result.1 ≡ self.slots }
        ensures serves { Serves (V.view.outline result.0) (V.view.more result.0) result.1 }
    {
        let Hub { pool, sessions } = self;
        (pool, sessions)
    }

    /// The hub of these.
    #[inline(never)]
    pub(crate) fn of_parts(pool: V, sessions: [Option<Session>; SESSIONS]) -> Hub<V>
        requires { Serves (V.view.outline pool) (V.view.more pool) sessions }
        ensures pool { result.pool ≡ pool }
        ensures slots { result.slots ≡ sessions }
    {
        Hub { pool, sessions }
    }
}

impl<V: Cloned> Hub<V> {
    ghost use Rattle.std.specs.Prelude.{◌≡◌};
    ghost use Rattle.std.specs.FinMap.{empty};
    ghost use Rattle.tp_model.specs.Clauses.{TracedCall, outline_of_traced};
    ghost use Rattle.nbd_session.specs.Clauses.{GoesWithTrace};
    ghost use Rattle.tp_hub.specs.Serving.{AllLeave, AllLeaveSo, sessions_of};

    /// The pool, after all sessions ended. It takes no memory.
    pub fn into_pool(self) -> V
        ensures leaves { AllLeave V.view (sessions_of self.slots) self.pool result }
        ensures traced { GoesWithTrace V.view self.pool result (λ t t'. AllLeaveSo outline_of_traced (TracedCall V.view.has_use) (sessions_of self.slots) t t') }
        ensures free { (V.view.outline result).holds ≡ empty }
    {
        let Hub { pool, sessions } = self;
        leave_all(sessions, pool)
    }
}

impl<V: SharedVolumes> Hub<V> {
    ghost use Rattle.std.specs.Prelude.{◌≡◌, ◌<◌, ◌≤◌, None, IfSome};
    ghost use Rattle.tp_model.specs.Clauses.{TracedCall, outline_of_traced};
    ghost use Rattle.nbd_session.specs.Clauses.{GoesWithTrace};
    ghost use Rattle.tp_hub.specs.Desks.{IsAsked, RanSo, RunsSo};
    ghost use Rattle.tp_hub.specs.Runs.{Brings};
    ghost use Rattle.tp_hub.specs.Serving.{sessions_of};
    ghost use Rattle.tp_hub.specs.Told.{KeepsRoom};

    /// Takes the READs and BLOCK_STATUSes with which a piece of a session begins, one after another, as long as a shared read or walk answers each and one longest
    /// answer more fits into `out`. Neither the sessions nor the pool change. None where not even one was taken, and then `out` has the answers that it had.
    pub fn ask_shared(&self, number: u8, piece: &[u8], out: &mut Answers) -> Option<Ran>
        requires { number < 64 }
        ensures asked { IfSome result (λ ran. IsAsked (λ took answers. RunsSo V.view (sessions_of self.now.slots) self.now.pool took answers (sessions_of self.now.slots) self.now.pool)
            (Brings number piece.now) ran.events ran.bytes out.old out.new) }
        ensures traced { IfSome result (λ ran. GoesWithTrace V.view self.now.pool self.now.pool (λ t t'. IsAsked
            (λ took answers. RanSo outline_of_traced (TracedCall V.view.has_use) (sessions_of self.now.slots) t took answers (sessions_of self.now.slots) t')
            (Brings number piece.now) ran.events ran.bytes out.old out.new)) }
        ensures none { result ≡ None → (out.new.list ≡ out.old.list) × KeepsRoom out.old out.new × (out.old.marks ≤ out.new.marks) }
    {
        ask_place(&self.sessions, &self.pool, number, piece, out)
    }
}

impl<V: Managed> Hub<V> {
    ghost use Rattle.std.specs.Prelude.{◌≡◌, ◌<◌, ◌≤◌, ℕ, [], false, length, map, drop, All};
    ghost use Rattle.tp_model.specs.Clauses.{PoolCall, TracedCall, outline_of_traced};
    ghost use Rattle.nbd_session.specs.Clauses.{GoesWithTrace};
    ghost use Rattle.tp_hub.specs.Desks.{IsAsked, RanSo, RunsSo};
    ghost use Rattle.tp_hub.specs.Runs.{Brings, IsPartOfNext, IsShortOfNext, Runs, incoming, session_of, taken_of};
    ghost use Rattle.tp_hub.specs.Parts.{BringIdle, IsIdle, StayIdle, is_parted_to};
    ghost use Rattle.tp_hub.specs.Serving.{sessions_of};

    /// Takes events one after another, and adds their answers. What is sent is that of the sessions' turns, in the order of the events.
    ///
    /// `Open` of a session that is open is refused `SessionInUse`, `Bytes` and `Hangup` of one that is not `NoSession`. What stands
    /// in a piece behind its session's end is dropped. The parts of a long request are made one behind the other, each in a turn of its own, and no session has any
    /// left behind `Bytes`: `Parted` stops where the first one is to be made, and makes one of them where it brings no text. Text for a session that has parts left
    /// is refused `SessionInUse`. A request that is kept apart has one such part, the FLUSH that answers it.
    ///
    /// A line that is no message is refused for its text (`UnknownMessage`, `BadSyntax` or `BadDeviceId`), and the pool is not asked; for any other line the
    /// pool is asked once, and `Done` or its refusal answers it. A status line is the pool's at its turn; that of a volume whose number is over 16777215 is
    /// refused `BadDeviceId`, and the pool is not asked. A flush is answered as a message is.
    ///
    /// For a volume's size the pool is asked for it, for a page of a map for one walk, and for one of a delta for a size and two walks; what is told is a line, or why there is none. A volume
    /// whose number is over 16777215 is refused `BadDeviceId`, such a block `BadSyntax`, and the pool is not asked.
    ///
    /// It stops where one longest answer more does not fit into `out`, since memory is refused or `out` is to be emptied first, and where
    /// memory for a session is refused: the events before and so many bytes of the next one were taken, and a later call goes on from there.
    /// It stops for no other cause.
    pub fn run(&mut self, alloc: Global, events: &[Event<'_>], out: &mut Answers) -> Ran
        requires { All (λ e. session_of e < 64) events.now }
        ensures runs { Runs V.view.outline (PoolCall V.view) (sessions_of self.old.slots) self.old.pool
            (taken_of (map incoming events.now) result.events result.bytes) out.old out.new (sessions_of self.new.slots) self.new.pool }
        ensures traced { GoesWithTrace V.view self.old.pool self.new.pool (λ t t'. Runs outline_of_traced (TracedCall V.view.has_use) (sessions_of self.old.slots) t
            (taken_of (map incoming events.now) result.events result.bytes) out.old out.new (sessions_of self.new.slots) t') }
        ensures part { IsPartOfNext (sessions_of self.new.slots) (drop result.events (map incoming events.now)) result.bytes }
        ensures short { IsShortOfNext (sessions_of self.new.slots) (drop result.events (map incoming events.now)) result.bytes out.new }
        ensures within { result.events ≤ length events.now }
        ensures idle { StayIdle (sessions_of self.old.slots) events.now (sessions_of self.new.slots) }
        ensures made { BringIdle events.now result.events (sessions_of self.new.slots) }
    {
        run_events(&mut self.sessions, &mut self.pool, alloc, events, out)
    }

    /// Takes one event, as `run` takes a list of one, with the same answers. Of how much is taken its clauses say what a desk says of an ask (`asked`): something, where
    /// one longest answer fits. For what cause the rest was left (`short` of `run`) they do not say.
    pub fn take(&mut self, alloc: Global, event: Event<'_>, out: &mut Answers) -> Ran
        requires { session_of event < 64 }
        ensures asked { IsAsked (λ took answers. RunsSo V.view (sessions_of self.old.slots) self.old.pool took answers (sessions_of self.new.slots) self.new.pool)
            (incoming event.entry) result.events result.bytes out.old out.new }
        ensures traced { GoesWithTrace V.view self.old.pool self.new.pool (λ t t'. IsAsked
            (λ took answers. RanSo outline_of_traced (TracedCall V.view.has_use) (sessions_of self.old.slots) t took answers (sessions_of self.new.slots) t')
            (incoming event.entry) result.events result.bytes out.old out.new) }
        ensures idle { (n : ℕ) → is_parted_to n event.entry ≡ false → IsIdle (sessions_of self.old.slots) n → IsIdle (sessions_of self.new.slots) n }
        ensures made { (n : ℕ) → is_parted_to n event.entry ≡ false → incoming event.entry ≡ Brings n [] → 0 < result.events → IsIdle (sessions_of self.new.slots) n }
    {
        take_one(&mut self.sessions, &mut self.pool, alloc, &event, out)
    }
}

/// Whether a session is open under a number.
fn is_open(sessions: &[Option<Session>; SESSIONS], number: u8) -> bool
    requires count { length sessions.now ≡ 64 }
    requires number { number < 64 }
    ensures { result ≡ is_some (slot_at sessions.now number) }
{
    sessions[usize::from(number)].is_some()
}

/// Whether the session of a number has parts of a request left.
pub(crate) fn at_work(sessions: &[Option<Session>; SESSIONS], number: u8) -> bool
    requires count { length sessions.now ≡ 64 }
    requires number { number < 64 }
    ensures { result ≡ is_at_work (sessions_of sessions.now number).phase }
{
    match &sessions[usize::from(number)] {
        None => false,
        Some(session) => session.is_at_work(),
    }
}

/// Whether nothing but a FLUSH is left of a request of the session of a number.
pub(crate) fn to_flush(sessions: &[Option<Session>; SESSIONS], number: u8) -> bool
    requires count { length sessions.now ≡ 64 }
    requires number { number < 64 }
    ensures { result ≡ is_to_flush (sessions_of sessions.now number).phase }
{
    match &sessions[usize::from(number)] {
        None => false,
        Some(session) => session.is_to_flush(),
    }
}

/// Whether the next frame of the session of a number is a FLUSH that stands whole at the front of a
/// piece.
pub(crate) fn at_flush(sessions: &[Option<Session>; SESSIONS], number: u8, piece: &[u8]) -> bool
    requires count { length sessions.now ≡ 64 }
    requires number { number < 64 }
    ensures at { result ≡ true → IsAtFlush (sessions_of sessions.now number) piece.now }
    ensures not_at { result ≡ false → IsAtFlush (sessions_of sessions.now number) piece.now → ⊥ }
{
    match &sessions[usize::from(number)] {
        None => false,
        Some(session) => session.begins_flush(piece),
    }
}

/// How many bytes of a piece the session of a number takes before others may have the hub.
fn batch_len(sessions: &[Option<Session>; SESSIONS], number: u8, piece: &[u8]) -> usize
    requires count { length sessions.now ≡ 64 }
    requires number { number < 64 }
    ensures few { IsBatchOf (sessions_of sessions.now number) piece.now result }
    ensures most { result ≤ length piece.now }
    ensures some { 0 < length piece.now → 0 < result }
{
    match &sessions[usize::from(number)] {
        None => piece.len(),
        Some(session) => session.batch_len(piece),
    }
}

/// Whether the session of a number is told since an older volume.
pub(crate) fn older(sessions: &[Option<Session>; SESSIONS], number: u8) -> bool
    requires count { length sessions.now ≡ 64 }
    requires number { number < 64 }
    ensures { result ≡ has_older (sessions_of sessions.now number).phase }
{
    match &sessions[usize::from(number)] {
        None => false,
        Some(session) => session.has_older(),
    }
}

/// The least number that is not open, or None where all are.
fn least_free(sessions: &[Option<Session>; SESSIONS]) -> Option<u8>
    requires { length sessions.now ≡ 64 }
    ensures free { IfSome result (λ n. IsLeastFree sessions.now n) }
    ensures none { result ≡ None → AreAllOpen sessions.now }
{
    for number in 0..64u8 {
        if !is_open(sessions, number) {
            return Some(number);
        }
    }
    None
}

/// A place without a session.
fn no_session(_place: usize) -> Option<Session>
    ensures { result ≡ None }
{
    None
}

/// An event that was taken whole counts, and another one does not.
fn one_if(whole: bool) -> usize
    ensures { result ≡ one_if whole }
{
    if whole { 1 } else { 0 }
}

/// Takes events one after another.
fn run_events<V: Managed>(
    sessions: &mut [Option<Session>; SESSIONS],
    pool: &mut V,
    alloc: Global,
    events: &[Event<'_>],
    out: &mut Answers,
) -> Ran
    requires serves { Serves (V.view.outline pool.old) (V.view.more pool.old) sessions.old }
    requires numbers { All (λ e. session_of e < 64) events.now }
    ensures runs { Runs V.view.outline (PoolCall V.view) (sessions_of sessions.old) pool.old
        (taken_of (map incoming events.now) result.events result.bytes) out.old out.new (sessions_of sessions.new) pool.new }
    ensures part { IsPartOfNext (sessions_of sessions.new) (drop result.events (map incoming events.now)) result.bytes }
    ensures short { IsShortOfNext (sessions_of sessions.new) (drop result.events (map incoming events.now)) result.bytes out.new }
    ensures within { result.events ≤ length events.now }
    ensures idle { StayIdle (sessions_of sessions.old) events.now (sessions_of sessions.new) }
    ensures made { BringIdle events.now result.events (sessions_of sessions.new) }
    ensures serves { Serves (V.view.outline pool.new) (V.view.more pool.new) sessions.new }
{
    for (i, event) in events.iter().enumerate() {
        let took = take_event(sessions, pool, alloc, event, out);
        if !took.whole {
            return Ran {
                events: i,
                bytes: took.bytes,
            };
        }
    }
    Ran {
        events: events.len(),
        bytes: 0,
    }
}

/// Takes one event.
fn take_event<V: Managed>(
    sessions: &mut [Option<Session>; SESSIONS],
    pool: &mut V,
    alloc: Global,
    event: &Event<'_>,
    out: &mut Answers,
) -> Took
    requires serves { Serves (V.view.outline pool.old) (V.view.more pool.old) sessions.old }
    requires number { session_of event.now < 64 }
    ensures takes { TakesEvent V.view (incoming event.now) sessions.old pool.old result.whole result.bytes out.old out.new sessions.new pool.new }
    ensures idle { (n : ℕ) → is_parted_to n event.now ≡ false → IsIdle (sessions_of sessions.old) n → IsIdle (sessions_of sessions.new) n }
    ensures made { (n : ℕ) → is_parted_to n event.now ≡ false → incoming event.now ≡ Brings n [] → result.whole ≡ true → IsIdle (sessions_of sessions.new) n }
{
    match *event {
        Event::Open(number, profile) => {
            open_slot::<V>(
                &mut sessions[usize::from(number)],
                alloc,
                number,
                profile,
                out,
            )
        }
        Event::Bytes(number, piece) => {
            hear_slot(
                &mut sessions[usize::from(number)],
                pool,
                number,
                piece,
                false,
                out,
            )
        }
        Event::Parted(number, piece) => {
            hear_slot(
                &mut sessions[usize::from(number)],
                pool,
                number,
                piece,
                true,
                out,
            )
        }
        Event::Hangup(number) => {
            leave_slot(&mut sessions[usize::from(number)], pool, number, out)
        }
        Event::Message(line) => take_message(pool, line, out),
        Event::Status => take_status(pool, out),
        Event::ThinStatus(volume) => take_thin_status(pool, volume, out),
        Event::Size(volume) => take_size(pool, volume, out),
        Event::Map(volume, first) => take_map(pool, volume, first, out),
        Event::Delta(one, other, first) => take_delta(pool, one, other, first, out),
        Event::Flush => take_flush(pool, out),
    }
}

/// Takes one event, and tells how much of it.
fn take_one<V: Managed>(
    sessions: &mut [Option<Session>; SESSIONS],
    pool: &mut V,
    alloc: Global,
    event: &Event<'_>,
    out: &mut Answers,
) -> Ran
    requires serves { Serves (V.view.outline pool.old) (V.view.more pool.old) sessions.old }
    requires number { session_of event.now < 64 }
    ensures asked { IsAsked (λ took answers. RunsSo V.view (sessions_of sessions.old) pool.old took answers (sessions_of sessions.new) pool.new)
        (incoming event.now) result.events result.bytes out.old out.new }
    ensures idle { (n : ℕ) → is_parted_to n event.now ≡ false → IsIdle (sessions_of sessions.old) n → IsIdle (sessions_of sessions.new) n }
    ensures made { (n : ℕ) → is_parted_to n event.now ≡ false → incoming event.now ≡ Brings n [] → 0 < result.events → IsIdle (sessions_of sessions.new) n }
    ensures serves { Serves (V.view.outline pool.new) (V.view.more pool.new) sessions.new }
{
    let took = take_event(sessions, pool, alloc, event, out);
    let events = one_if(took.whole);
    Ran {
        events,
        bytes: took.bytes,
    }
}

/// The same, and of the piece of a `Parted` no more than a batch of its session
/// (`Session::batch_len`), so that others may have the hub before the rest of it.
pub(crate) fn take_batch<V: Managed>(
    sessions: &mut [Option<Session>; SESSIONS],
    pool: &mut V,
    alloc: Global,
    event: Event<'_>,
    out: &mut Answers,
) -> Ran
    requires serves { Serves (V.view.outline pool.old) (V.view.more pool.old) sessions.old }
    requires number { session_of event < 64 }
    ensures asked { IsAsked (λ took answers. RunsSo V.view (sessions_of sessions.old) pool.old took answers (sessions_of sessions.new) pool.new)
        (incoming event.entry) result.events result.bytes out.old out.new }
    ensures few { IsInBatch (sessions_of sessions.old) event.entry result.events result.bytes }
    ensures idle { (n : ℕ) → is_parted_to n event.entry ≡ false → IsIdle (sessions_of sessions.old) n → IsIdle (sessions_of sessions.new) n }
    ensures made { (n : ℕ) → is_parted_to n event.entry ≡ false → incoming event.entry ≡ Brings n [] → 0 < result.events → IsIdle (sessions_of sessions.new) n }
    ensures serves { Serves (V.view.outline pool.new) (V.view.more pool.new) sessions.new }
{
    match event {
        Event::Parted(number, piece) => {
            let count = batch_len(sessions, number, piece);
            let front = Event::Parted(number, &piece[..count]);
            let ran = take_one(sessions, pool, alloc, &front, out);
            if count >= piece.len() {
                return ran;
            }
            if ran.events == 0 {
                return ran;
            }
            Ran {
                events: 0,
                bytes: count,
            }
        }
        other => take_one(sessions, pool, alloc, &other, out),
    }
}

/// Ends all sessions.
fn leave_all<V: Cloned>(mut sessions: [Option<Session>; SESSIONS], mut pool: V) -> V
    requires { Serves (V.view.outline pool) (V.view.more pool) sessions }
    ensures leaves { AllLeave V.view (sessions_of sessions) pool result }
    ensures free { (V.view.outline result).holds ≡ empty }
{
    for i in 0..SESSIONS {
        leave_place(&mut sessions[i], &mut pool);
    }
    pool
}
