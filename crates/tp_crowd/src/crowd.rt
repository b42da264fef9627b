//! Many clients at once, each on a thread of its own.

ghost use Rattle.std.specs.Prelude.{◌≡◌, ◌<◌, ◌≤◌, IfOk, length, take};
ghost use Rattle.std.specs.Iterator.{IsFinite, size};
ghost use Rattle.tp_lines.specs.ReadLines.{Leads};
ghost use Rattle.tp_lock.specs.Framing.{set_in};
ghost use Rattle.tp_lock.specs.Locked.{CameOf, IsFrom};
ghost use Rattle.tp_crowd.specs.Guests.{IsVisit, has_memory};

use nbd_session::{Profile, give_back};
use nbd_wire::MAX_FRAME;
use std::alloc::{AllocError, Global};
use std::marker::Brand;
use std::sync::Wait;
use std::sync::atomic::{AtomicBool, Ordering};
use std::thread;
use std::thread::Threads;
use tp_hub::{Answers, Carried, Desk, Hub, Stream, carry};
use tp_lock::{Alarm, HubLock, LockedDesk, Start};
use tp_model::{Staged, Volumes};
use tp_msg::Managed;

/// The most clients that are taken.
const CLIENTS: u8 = 64;

/// The most bytes that are read of a client at once, until a read has brought as many.
const FIRST_READ: usize = 65_536;

/// Who was refused memory or a thread, by the number of its session.
pub(crate) type RefusedFlags = [AtomicBool; 64];

/// A hub after all its clients are gone.
pub struct Served<V: Volumes> {
    pub hub: Hub<V>,
    /// How many clients came.
    pub came: u8,
    /// How many of them were refused memory before their greeting, or a thread.
    pub refused: u64,
}

/// Serves clients as they come, each on a thread of its own: the first as session 0, the next as session 1, and so on. It takes 64 of them at most, and then
/// looks for no more. It ends when all of them have.
///
/// The hub stands behind a lock, which one ask has alone, or READs and BLOCK_STATUSes share ([`LockedDesk`]); reads and writes of a stream wait for no other client. Buffers
/// are a client's own. Who finds no memory for them, or no thread, is refused: that stream is dropped, and nothing was read from it or written to it. So is a client
/// whose session is open when it comes, which does not count as refused. When the pool has failed, the alarm sounds once.
///
/// Each ask is one [`Hub::run`], made while the lock is held, or READs and BLOCK_STATUSes of [`Hub::ask_shared`], which change nothing, made while it is shared; and
/// nothing else is done to the hub, also where a commit is made in parts for an event that asks for one (`tp_hub::StagedHub`). So the hub that is given back came of
/// the one that was given by runs one behind the other (`asked`), in the order in which the lock was had; those that shared it may stand anywhere. Which of these
/// runs were a client's, and so that it is told what they answered and no more is done than it asked for, no clause says, nor that every client that came is
/// served.
pub fn serve_all<R, V, S, I, A>(
    rt: &R,
    alloc: Global,
    hub: Hub<V>,
    clients: I,
    alarm: &A,
) -> Served<V>
where
    R: Threads + Wait + Sync,
    V: Managed + Staged + Send + Sync,
    V::Midway: Send + Sync,
    S: Stream + Send + Drop,
    I: Iterator<Item = S> + Drop,
    A: Alarm<V> + Sync,
    requires can { I.can_next clients }
    requires ends { IsFinite (I.remaining clients) }
    ensures asked { CameOf V.view hub result.hub }
    ensures came { result.came ≤ 64 }
    ensures offered { result.came ≤ size (I.remaining clients) }
    ensures refused { result.refused ≤ result.came }
{
    serve_since::<R, V, S, I, A, Brand>(rt, alloc, hub, clients, alarm)
}

/// `serve_all` for a hub that is the start `K`, so that contracts know which hub came back.
fn serve_since<R, V, S, I, A, K>(
    rt: &R,
    alloc: Global,
    hub: Hub<V>,
    clients: I,
    alarm: &A,
) -> Served<V>
where
    R: Threads + Wait + Sync,
    V: Managed + Staged + Send + Sync,
    V::Midway: Send + Sync,
    S: Stream + Send + Drop,
    I: Iterator<Item = S> + Drop,
    A: Alarm<V> + Sync,
    K: Start<V> + Send + Sync,
    requires start { K.is_start hub }
    requires can { I.can_next clients }
    requires ends { IsFinite (I.remaining clients) }
    ensures asked { IsFrom V.view K.is_start result.hub }
    ensures came { result.came ≤ 64 }
    ensures offered { result.came ≤ size (I.remaining clients) }
    ensures refused { result.refused ≤ result.came }
{
    let shared = HubLock::<V, A, K>::new(hub, alarm);
    let refused = std::array::from_fn(not_refused);
    let streams = Streams {
        rt,
        alloc,
        hub: &shared,
    };
    let came = attend_all(rt, &refused, clients, &streams);
    behind_all(shared, &refused_by_now(&refused), came)
}

/// What carries a client on the client's own thread.
pub(crate) trait Attend<C> {
    /// Carries it as the session of this number. False where there was no memory for it.
    fn attend(&self, number: u8, client: C) -> bool
        requires { number < 64 };
}

/// Carries streams over a hub behind a lock.
#[derive(Drop)]
struct Streams<'m, R: Wait, V: Staged, A: Alarm<V>, K: Start<V>> {
    rt: &'m R,
    alloc: Global,
    hub: &'m HubLock<'m, V, A, K>,
}

impl<'m, R, V, A, K, S> Attend<S> for Streams<'m, R, V, A, K>
where
    R: Wait,
    V: Managed + Staged,
    A: Alarm<V>,
    K: Start<V>,
    S: Stream + Drop,
{
    fn attend(&self, number: u8, mut stream: S) -> bool {
        carry_stream(
            self.rt,
            self.alloc,
            self.hub,
            number,
            Profile::Strict,
            &mut stream,
        )
    }
}

/// Starts a thread for each client, lets go of who gave the clients, and tells how many came when all are done.
pub(crate) fn attend_all<R, C, I, A>(
    rt: &R,
    refused: &RefusedFlags,
    clients: I,
    attendant: &A,
) -> u8
where
    R: Threads + Wait,
    C: Send + Drop,
    I: Iterator<Item = C> + Drop,
    A: Attend<C> + Sync,
    requires can { I.can_next clients }
    requires ends { IsFinite (I.remaining clients) }
    ensures few { result ≤ 64 }
    ensures offered { result ≤ size (I.remaining clients) }
{
    thread::scope(
        thread::scope_env(),
        rt,
        move |scope| -> u8
            requires { I.can_next clients × IsFinite (I.remaining clients) }
            ensures { (result ≤ 64) × (result ≤ size (I.remaining clients)) }
        {
            let mut came = 0u8;
            for client in clients {
                let number = came;
                came += 1;
                let is_refused = &refused[usize::from(number)];
                let attend = move || {
                    if !attendant.attend(number, client) {
                        is_refused.store(true, Ordering::SeqCst);
                    }
                };
                if scope.spawn(attend).is_err() {
                    is_refused.store(true, Ordering::SeqCst);
                }
                if came == CLIENTS {
                    break;
                }
            }
            came
        },
    )
}

/// Carries one client. False where there was no memory for it.
pub(crate) fn carry_stream<R, V, A, K, S>(
    rt: &R,
    alloc: Global,
    hub: &HubLock<'_, V, A, K>,
    number: u8,
    profile: Profile,
    stream: &mut S,
) -> bool
where
    R: Wait,
    V: Managed + Staged,
    A: Alarm<V>,
    K: Start<V>,
    S: Stream,
    requires { number < 64 }
{
    carry_over(
        alloc,
        &mut LockedDesk { rt, alloc, hub },
        number,
        profile,
        stream,
    )
}

/// Whether there was memory for a client.
fn was_carried(ending: Carried) -> bool
    ensures { result ≡ has_memory ending }
{
    match ending {
        Carried::NoMemory => false,
        _ => true,
    }
}

/// The same over any desk: [`carry`], where there is memory for a buffer.
pub(crate) fn carry_over<D: Desk, S: Stream>(
    alloc: Global,
    desk: &mut D,
    number: u8,
    profile: Profile,
    stream: &mut S,
) -> bool
    requires { number < 64 }
    ensures { Leads D.asks (λ asks did. IsVisit number profile asks did result) desk.old desk.new (S.calls stream.old) (S.calls stream.new) }
{
    let Ok(mut buffer) = make_buffer(alloc) else {
        return false;
    };
    let mut out = Answers::of_a_turn(alloc);
    let ending = carry(desk, number, profile, stream, &mut buffer, &mut out);
    give_back(buffer);
    was_carried(ending)
}

/// What is left behind so many clients, all of which are gone.
pub(crate) fn behind_all<V: Staged, A: Alarm<V>, K: Start<V>>(
    hub: HubLock<'_, V, A, K>,
    refused: &[bool; 64],
    came: u8,
) -> Served<V>
    requires { came ≤ 64 }
    ensures asked { IsFrom V.view K.is_start result.hub }
    ensures came { result.came ≡ came }
    ensures refused { result.refused ≡ set_in (take came refused.now) }
    ensures most { result.refused ≤ came }
{
    Served {
        hub: hub.into_inner(),
        came,
        refused: count_set(refused, came),
    }
}

/// At first no client was refused.
pub(crate) fn not_refused(_number: usize) -> AtomicBool {
    AtomicBool::new(false)
}

/// Which clients have been refused up to now, by the numbers of their sessions.
pub(crate) fn refused_by_now(refused: &RefusedFlags) -> [bool; 64] {
    let mut flags = [false; 64];
    for number in 0..64 {
        flags[number] = refused[number].load(Ordering::SeqCst);
    }
    flags
}

/// How many of so many clients were refused.
fn count_set(refused: &[bool; 64], came: u8) -> u64
    requires { came ≤ 64 }
    ensures count { result ≡ set_in (take came refused.now) }
    ensures most { result ≤ came }
{
    let mut count = 0;
    for number in 0..came {
        count += refused[usize::from(number)] as u64;
    }
    count
}

/// A buffer for what a client sends, with memory for the longest frame. It is short at first.
fn make_buffer(alloc: Global) -> Result<Vec<u8>, AllocError>
    ensures { IfOk result (λ v. 0 < length v.items) }
{
    let mut buffer = Vec::with_capacity(alloc, MAX_FRAME)?;
    buffer.resize(FIRST_READ, 0)?;
    Ok(buffer)
}
