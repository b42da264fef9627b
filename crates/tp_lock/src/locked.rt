//! A hub that many clients ask.

ghost use Rattle.std.specs.Prelude.{◌≡◌, ◌<◌, [], IfSome, None, true};
ghost use Rattle.tp_hub.specs.Told.{HasRoom, IsWider};
ghost use Rattle.tp_hub.specs.Runs.{Brings, incoming, session_of};
ghost use Rattle.tp_hub.specs.Desks.{IsAsked};
ghost use Rattle.tp_hub.specs.Serving.{sessions_of};
ghost use Rattle.tp_hub.specs.Staged.{slots_of};
ghost use Rattle.tp_lock.specs.Census.{AreSeats};
ghost use Rattle.tp_lock.specs.Locked.{AsksInParts, MakesParts, SomeRun, SomeRuns, has_left, hearer_in};
ghost use Rattle.tp_lock.specs.Seen.{IsSeen};

use crate::health::Health;
use crate::order::Order;
use crate::patience::now;
use nbd_session::{PieceKind, kind_of_piece};
use std::alloc::Global;
use std::sync::atomic::{AtomicBool, AtomicU64, Ordering};
use std::sync::{MutexGuard, RwLock, RwLockReadGuard, RwLockWriteGuard, Wait};
use tp_hub::{Answers, Desk, Event, Hub, Mark, Ran, SESSIONS, Seat, StagedHub, Start};
use tp_model::Staged;
use tp_msg::{Managed, read_message};

/// More parts than a request has: each but the first and the last has 513 KiB at least, and a request has less than 4 GiB.
const MOST_PARTS: u32 = 16_384;

/// So many parts of a commit are made one by one. The last of them makes all that are left.
const PARTS_OF_A_COMMIT: u32 = 3;

/// So often one whose turn it is lets READs that wait go first: about as long as it takes to wake them.
const TRIES_BEHIND_READS: u32 = 200;

/// So often one whose turn it is tries to have the hub alone between READs, before it keeps further ones away.
const TRIES_BETWEEN_READS: u32 = 100;

/// What is to be told while a pool serves.
pub trait Alarm<V> {
    /// Why a pool has failed, as far as it tells.
    type Cause;

    /// Looks it up, while nobody changes the pool.
    fn cause(&self, pool: &V) -> Self::Cause;

    /// Told once, when the pool has failed: by the thread of which an ask found it so, before what was asked is answered, and while it has no lock.
    fn pool_failed(&self, cause: Self::Cause);
}

/// A hub behind a lock, which one ask has alone, or READs share, and an alarm of its pool. No lock is poisoned, and taking it does not fail. What is said here of
/// READs holds of BLOCK_STATUSes too.
///
/// Who wants the hub alone has its turn first, one behind another: READs come between two of them, and go on while the one whose turn it is waits for the
/// device.
///
/// A commit is made in parts for an event that asks for one, and for no other: a FLUSH of a session,
/// the FLUSH that is left of its request, the event `Flush`, and a message. READs go on while the device
/// brings what a part wrote.
///
/// The hub came of the one that was put behind the lock, of which `K` states which it was
/// ([`StagedHub`]).
#[derive(Drop)]
pub struct HubLock<'a, V: Staged, A: Alarm<V>, K: Start<V>> {
    hub: RwLock<StagedHub<V, K>>,
    order: Order,
    /// How many READs wait for the hub.
    waiting: AtomicU64,
    alarm: &'a A,
    has_sounded: AtomicBool,
}

impl<'a, V: Staged, A: Alarm<V>, K: Start<V>> HubLock<'a, V, A, K> {
    ghost use Rattle.std.specs.Prelude.{◌≡◌, ◌<◌, IfSome, true};
    ghost use Rattle.tp_model.specs.Calls.{is_failed};
    ghost use Rattle.tp_hub.specs.Runs.{session_of};
    ghost use Rattle.tp_hub.specs.Seats.{seat_at};
    ghost use Rattle.tp_hub.specs.Serving.{HubState, Slots};
    ghost use Rattle.tp_hub.specs.Staged.{Idle, IsFrom};
    ghost use Rattle.tp_lock.specs.Census.{AreSeats};

    /// A lock that nobody has.
    pub fn new(hub: Hub<V>, alarm: &'a A) -> HubLock<'a, V, A, K>
        requires { K.is_start hub }
    {
        HubLock {
            hub: RwLock::new(StagedHub::new(hub)),
            order: Order::new(),
            waiting: AtomicU64::new(0),
            alarm,
            has_sounded: AtomicBool::new(false),
        }
    }

    /// The hub, as those who asked it left it.
    pub fn into_inner(self) -> Hub<V>
        ensures { IsFrom V.view K.is_start result }
    {
        let HubLock {
            hub,
            order: _,
            waiting: _,
            alarm: _,
            has_sounded: _,
        } = self;
        hub.into_inner().into_hub()
    }

    /// Who is told what becomes of it.
    pub fn alarm(&self) -> &'a A {
        self.alarm
    }

    /// Returns what is recorded of the pool, and takes no lock. The kit has no clause on what an atomic
    /// holds, so no clause states that the record is right: `tools/failed_sync` tests it.
    pub fn health(&self) -> Health {
        Health {
            has_failed: self.has_sounded.load(Ordering::SeqCst),
            seconds: self.order.seconds_in_turn(),
        }
    }

    /// Why the pool of a hub that nobody changes meanwhile has failed, if it has, and the alarm has not
    /// sounded.
    fn cause(&self, hub: &StagedHub<V, K>) -> Option<A::Cause>
        ensures { IfSome result (λ cause. (idle : HubState V) × (hub.now ≡ Idle idle) × (is_failed (V.view.outline idle.pool).mode ≡ true)) }
    {
        match hub.failed_pool() {
            None => None,
            Some(pool) => self.first_cause(pool),
        }
    }

    /// Why a pool has failed, once.
    fn first_cause(&self, pool: &V) -> Option<A::Cause> {
        if self.has_sounded.swap(true, Ordering::SeqCst) {
            return None;
        }
        Some(self.alarm.cause(pool))
    }

    /// Sounds the alarm where there is a cause.
    fn sound(&self, cause: Option<A::Cause>) {
        match cause {
            Some(cause) => self.alarm.pool_failed(cause),
            None => {}
        }
    }

    /// The hub, shared.
    fn shared<R: Wait>(&self, rt: &R) -> RwLockReadGuard<'_, StagedHub<V, K>> {
        if let Some(guard) = self.hub.try_read() {
            return guard;
        }
        self.waiting.fetch_add(1, Ordering::SeqCst);
        let guard = self.hub.read(rt);
        self.waiting.fetch_sub(1, Ordering::SeqCst);
        guard
    }

    /// Who is at a number.
    pub fn seat<R: Wait>(&self, rt: &R, number: u8) -> Seat
        requires { number < 64 }
        ensures { (slots : Slots) × (result ≡ seat_at slots number) }
    {
        self.shared(rt).seat(number)
    }

    /// Who is at each number.
    pub fn seats<R: Wait>(&self, rt: &R) -> [Seat; SESSIONS]
        ensures { (slots : Slots) × AreSeats slots result }
    {
        let hub = self.shared(rt);
        seats_of(&hub)
    }

    /// Whether an event asks for a commit.
    fn asks_commit<R: Wait>(&self, rt: &R, event: &Event<'_>) -> bool
        requires { session_of event.now < 64 }
    {
        self.shared(rt).asks_commit(event)
    }

    /// Lets READs that wait go first, as long as it takes to wake them.
    fn let_reads_go(&self) {
        let mut waiting = self.order.patience().begin();
        for _ in 0..TRIES_BEHIND_READS {
            if self.waiting.load(Ordering::SeqCst) == 0 || !waiting.goes_on() {
                return;
            }
        }
    }

    /// The hub alone, for the one whose turn it is.
    fn alone<R: Wait>(
        &self,
        rt: &R,
        _turn: &MutexGuard<'_, ()>,
    ) -> RwLockWriteGuard<'_, StagedHub<V, K>> {
        self.order.begin();
        self.let_reads_go();
        let mut waiting = self.order.patience().begin();
        for _ in 0..TRIES_BETWEEN_READS {
            if let Some(guard) = self.hub.try_write() {
                return guard;
            }
            if !waiting.goes_on() {
                break;
            }
        }
        self.hub.write(rt)
    }
}

impl<'a, V: Staged, A: Alarm<V>, K: Start<V>> HubLock<'a, V, A, K> {
    /// Brings to the device what was written so far, while READs go on. All others wait for their turn meanwhile, so nothing is written.
    fn sync_ahead<R: Wait>(&self, rt: &R, _turn: &MutexGuard<'_, ()>) {
        let began = self.order.begin();
        self.shared(rt).sync_ahead();
        self.order.synced(now().saturating_sub(began));
    }
}

/// What asks a hub behind a lock, which is taken for one ask and let go before the answers are written. Of a piece that begins with a request at most the first
/// 16 are asked at once, so that others have the hub between them and the next. A long request is asked part by part.
///
/// READs and BLOCK_STATUSes share the lock: while nobody has it alone, any number of them are made at once, each over the same hub, which none of them changes.
/// One that finds a metadata block neither changed nor held in memory, or whose disk fails, is asked again with the lock alone, as every other event is.
///
/// Behind an ask alone that leaves the pool failed the alarm sounds, if it has not. What is shared fails no pool.
///
/// Others ask the same hub in between, so an ask is known here to be a run of some sessions over some pool, and not of which. That it is one of those by
/// which the hub behind the lock came of the one that was put there the lock knows; which of them, no clause says.
#[derive(Drop)]
pub struct LockedDesk<'m, R: Wait, V: Staged, A: Alarm<V>, K: Start<V>> {
    pub rt: &'m R,
    pub alloc: Global,
    pub hub: &'m HubLock<'m, V, A, K>,
}

/// Who is at each number of a hub, also between two parts of a flush.
fn seats_of<V: Staged, K: Start<V>>(hub: &StagedHub<V, K>) -> [Seat; SESSIONS]
    ensures { AreSeats (slots_of hub.now) result }
{
    let mut seats = [Seat::Free; SESSIONS];
    for number in 0..64u8 {
        seats[usize::from(number)] = hub.seat(number);
    }
    seats
}

/// What was taken of an event that had the hub alone, and what is so behind it.
#[derive(Clone, Copy)]
struct Seen {
    ran: Ran,
    /// Parts of a request of its session are left.
    is_at_work: bool,
    /// Nothing but a FLUSH is left of it.
    is_to_flush: bool,
}

/// Whether a session has parts of a request left behind an event that brings bytes, and whether that is
/// a FLUSH alone.
fn left_of<V: Staged, K: Start<V>>(hub: &StagedHub<V, K>, hearer: Option<u8>) -> (bool, bool)
    requires { IfSome hearer (λ number. number < 64) }
    ensures { result.0 ≡ has_left (sessions_of (slots_of hub.now)) hearer }
{
    match hearer {
        None => (false, false),
        Some(number) => hub.left(number),
    }
}

/// The session of an event that brings bytes.
fn hearer_of(event: &Event<'_>) -> Option<u8>
    requires { session_of event.now < 64 }
    ensures few { IfSome result (λ number. number < 64) }
    ensures its { result ≡ hearer_in (incoming event.now) }
{
    match *event {
        Event::Bytes(number, _) => Some(number),
        Event::Parted(number, _) => Some(number),
        Event::Open(_, _) => None,
        Event::Hangup(_) => None,
        Event::Message(_) => None,
        Event::Status => None,
        Event::ThinStatus(_) => None,
        Event::Size(_) => None,
        Event::Map(_, _) => None,
        Event::Delta(_, _, _) => None,
        Event::Flush => None,
    }
}

/// What is so behind an event of this session, and the cause for the alarm, if the pool has failed and
/// the alarm has not sounded yet.
fn look<V: Staged, A: Alarm<V>, K: Start<V>>(
    lock: &HubLock<'_, V, A, K>,
    hub: &StagedHub<V, K>,
    hearer: Option<u8>,
    ran: Ran,
) -> (Seen, Option<A::Cause>)
    requires { IfSome hearer (λ number. number < 64) }
    ensures ran { result.0.ran ≡ ran }
    ensures work { result.0.is_at_work ≡ has_left (sessions_of (slots_of hub.now)) hearer }
{
    let (is_at_work, is_to_flush) = left_of(hub, hearer);
    let seen = Seen {
        ran,
        is_at_work,
        is_to_flush,
    };
    (seen, lock.cause(hub))
}

/// Asks a hub behind a lock in one's turn, behind what is left of a commit.
fn ask_in_turn<R: Wait, V: Managed + Staged, A: Alarm<V>, K: Start<V>>(
    rt: &R,
    alloc: Global,
    hub: &HubLock<'_, V, A, K>,
    event: Event<'_>,
    out: &mut Answers,
    turn: &MutexGuard<'_, ()>,
) -> (Seen, Option<A::Cause>)
    requires { session_of event < 64 }
    ensures { IsSeen V.view event.entry result.0 out.old out.new }
{
    let hearer = hearer_of(&event);
    let mut guard = hub.alone(rt, turn);
    let ran = guard.take(alloc, event, out);
    look(hub, &guard, hearer, ran)
}

/// Makes the next part of the commit that an event asks for, in one's turn. Answers the event if no
/// part is left.
fn keep_part<R: Wait, V: Managed + Staged, A: Alarm<V>, K: Start<V>>(
    rt: &R,
    hub: &HubLock<'_, V, A, K>,
    event: &Event<'_>,
    is_last: bool,
    out: &mut Answers,
    turn: &MutexGuard<'_, ()>,
) -> Option<(Seen, Option<A::Cause>)>
    requires session { session_of event.now < 64 }
    requires room { HasRoom out.old }
    ensures seen { IfSome result (λ r. IsSeen V.view event.now r.0 out.old out.new) }
    ensures none { result ≡ None → out.new ≡ out.old }
{
    let hearer = hearer_of(event);
    let mut guard = hub.alone(rt, turn);
    match guard.keep(event, is_last, out) {
        None => None,
        Some(ran) => Some(look(hub, &guard, hearer, ran)),
    }
}

/// Whether what was written is brought to the device before a part of a commit. Before the first part
/// of a message it is not: that part changes the pool first.
fn is_to_sync(event: &Event<'_>, part: u32) -> bool {
    match *event {
        Event::Message(_) => part > 0,
        _ => true,
    }
}

/// Asks a hub behind a lock for a commit, in one's turn. It is made in parts, between which READs go on
/// while the device brings what a part wrote. An event that it does not answer is asked as any other.
fn ask_commit<R: Wait, V: Managed + Staged, A: Alarm<V>, K: Start<V>>(
    rt: &R,
    alloc: Global,
    hub: &HubLock<'_, V, A, K>,
    event: Event<'_>,
    out: &mut Answers,
    turn: &MutexGuard<'_, ()>,
) -> (Seen, Option<A::Cause>)
    requires session { session_of event < 64 }
    requires room { HasRoom out.old }
    ensures { IsSeen V.view event.entry result.0 out.old out.new }
{
    for part in 0..PARTS_OF_A_COMMIT {
        if is_to_sync(&event, part) {
            hub.sync_ahead(rt, turn);
        }
        match keep_part(rt, hub, &event, part + 1 == PARTS_OF_A_COMMIT, out, turn) {
            None => {}
            Some(told) => return told,
        }
    }
    ask_in_turn(rt, alloc, hub, event, out, turn)
}

/// Whether the last answer is no refusal, so that a commit was made for it.
fn is_done(out: &Answers) -> bool {
    !matches!(out.marks().last(), Some(Mark::Refused { reason: _ }))
}

/// Asks a hub behind a lock alone, for an event that may ask for a commit. If the last one committed
/// all that was written, the event has nothing to wait for, and is asked as any other. The alarm sounds
/// when the lock is let go.
fn ask_to_keep<R: Wait, V: Managed + Staged, A: Alarm<V>, K: Start<V>>(
    rt: &R,
    alloc: Global,
    hub: &HubLock<'_, V, A, K>,
    event: Event<'_>,
    out: &mut Answers,
) -> Seen
    requires session { session_of event < 64 }
    requires room { HasRoom out.old }
    ensures { IsSeen V.view event.entry result out.old out.new }
{
    let keeping = match event {
        Event::Message(_) => hub.order.change_and_keep(rt),
        _ => hub.order.keep(rt, hearer_of(&event)),
    };
    let asks = hub.asks_commit(rt, &event);
    let (seen, cause) = if keeping.leads && asks {
        ask_commit(rt, alloc, hub, event, out, &keeping.turn)
    } else {
        ask_in_turn(rt, alloc, hub, event, out, &keeping.turn)
    };
    hub.order.kept(keeping, asks && is_done(out));
    hub.sound(cause);
    seen
}

/// Asks a hub behind a lock alone, for an event that asks for no commit. The alarm sounds when the lock
/// is let go.
fn ask_to_change<R: Wait, V: Managed + Staged, A: Alarm<V>, K: Start<V>>(
    rt: &R,
    alloc: Global,
    hub: &HubLock<'_, V, A, K>,
    event: Event<'_>,
    out: &mut Answers,
) -> Seen
    requires { session_of event < 64 }
    ensures { IsSeen V.view event.entry result out.old out.new }
{
    let session = hearer_of(&event);
    let turn = hub.order.change(rt);
    let (seen, cause) = ask_in_turn(rt, alloc, hub, event, out, &turn);
    hub.order.changed(session, turn);
    hub.sound(cause);
    seen
}

/// Asks a hub behind a lock alone, for an event that may ask for a commit or asks for none. If there is
/// no room for an answer no commit is made.
fn ask_for<R: Wait, V: Managed + Staged, A: Alarm<V>, K: Start<V>>(
    rt: &R,
    alloc: Global,
    hub: &HubLock<'_, V, A, K>,
    may_keep: bool,
    event: Event<'_>,
    out: &mut Answers,
) -> Seen
    requires { session_of event < 64 }
    ensures { IsSeen V.view event.entry result out.old out.new }
{
    if !may_keep {
        return ask_to_change(rt, alloc, hub, event, out);
    }
    if out.make_room().is_err() {
        return ask_to_change(rt, alloc, hub, event, out);
    }
    ask_to_keep(rt, alloc, hub, event, out)
}

/// Whether an event without a request asks for a commit.
fn may_keep(event: &Event<'_>) -> bool {
    match *event {
        Event::Flush => true,
        Event::Message(line) => read_message(line).is_ok(),
        _ => false,
    }
}

/// Asks a hub for the READs and BLOCK_STATUSes with which a piece of this kind begins, while others may do the same: the lock is shared for the time of the ask, and is
/// not taken where the piece begins with none of both. None where it has to be asked alone.
fn ask_shared<R: Wait, V: Staged, A: Alarm<V>, K: Start<V>>(
    rt: &R,
    hub: &HubLock<'_, V, A, K>,
    number: u8,
    kind: PieceKind,
    piece: &[u8],
    out: &mut Answers,
) -> Option<Ran>
    requires { number < 64 }
    ensures asked { IfSome result (λ ran. IsAsked (λ took answers. SomeRuns V.view took answers) (Brings number piece.now) ran.events ran.bytes out.old out.new) }
    ensures none { result ≡ None → IsWider out.old out.new }
{
    if kind != PieceKind::Look {
        return None;
    }
    let guard = hub.shared(rt);
    guard.ask_shared(number, piece, out)
}

/// Makes the parts that are left of a request of a session, where any are, each in an ask of its own, so that others have the hub between two: up to the last one,
/// or to where one longest answer more does not fit. A FLUSH that is left of one is made in parts itself, while READs go on.
fn make_parts<R: Wait, V: Managed + Staged, A: Alarm<V>, K: Start<V>>(
    rt: &R,
    alloc: Global,
    hub: &HubLock<'_, V, A, K>,
    number: u8,
    seen: Seen,
    out: &mut Answers,
)
    requires { number < 64 }
    ensures { MakesParts V.view number seen.is_at_work out.old out.new }
{
    let mut left = seen;
    for part in 0..MOST_PARTS {
        if !left.is_at_work {
            return;
        }
        let made = ask_for(
            rt,
            alloc,
            hub,
            left.is_to_flush,
            Event::Parted(number, &[]),
            out,
        );
        if made.ran.events == 0 {
            return;
        }
        left = made;
    }
    if !left.is_at_work {
        return;
    }
    ask_for(rt, alloc, hub, false, Event::Bytes(number, &[]), out);
}

/// Asks the requests of a piece of this kind up to one of which parts are left, and then for these.
fn ask_parts<R: Wait, V: Managed + Staged, A: Alarm<V>, K: Start<V>>(
    rt: &R,
    alloc: Global,
    hub: &HubLock<'_, V, A, K>,
    number: u8,
    kind: PieceKind,
    piece: &[u8],
    out: &mut Answers,
) -> Ran
    requires { number < 64 }
    ensures asked { IsAsked (λ took answers. SomeRuns V.view took answers) (Brings number piece.now) result.events result.bytes out.old out.new }
    ensures parts { AsksInParts V.view number piece.now result.events result.bytes out.old out.new }
{
    let may_keep = kind == PieceKind::Flush;
    let seen = ask_for(rt, alloc, hub, may_keep, Event::Parted(number, piece), out);
    let ran = seen.ran;
    if ran.events == 0 && ran.bytes == 0 {
        return ran;
    }
    make_parts(rt, alloc, hub, number, seen, out);
    ran
}

/// Asks a hub behind a lock once for a piece: beside others, or where that cannot be, alone, and part by part where a long request comes.
fn ask_once<R: Wait, V: Managed + Staged, A: Alarm<V>, K: Start<V>>(
    rt: &R,
    alloc: Global,
    hub: &HubLock<'_, V, A, K>,
    number: u8,
    piece: &[u8],
    out: &mut Answers,
) -> Ran
    requires { number < 64 }
    ensures { IsAsked (λ took answers. SomeRuns V.view took answers) (Brings number piece.now) result.events result.bytes out.old out.new }
{
    let kind = kind_of_piece(piece);
    if let Some(ran) = ask_shared(rt, hub, number, kind, piece, out) {
        return ran;
    }
    ask_parts(rt, alloc, hub, number, kind, piece, out)
}

impl<'m, R, V, A, K> Desk for LockedDesk<'m, R, V, A, K>
where
    R: Wait,
    V: Managed + Staged,
    A: Alarm<V>,
    K: Start<V>,
{
    ghost use Rattle.tp_lock.specs.Locked.{SomeRuns};

    ghost asks = { λ a took answers b. SomeRuns V.view took answers };

    fn ask(&mut self, event: Event<'_>, out: &mut Answers) -> Ran {
        match event {
            Event::Bytes(number, piece) => {
                ask_once(self.rt, self.alloc, self.hub, number, piece, out)
            }
            other => {
                let may_keep = may_keep(&other);
                ask_for(self.rt, self.alloc, self.hub, may_keep, other, out).ran
            }
        }
    }
}
