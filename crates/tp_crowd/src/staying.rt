//! Clients without end, 64 at a time, until a control line says `stop`.

ghost use Rattle.std.specs.Prelude.{◌≡◌, ◌<◌};
ghost use Rattle.tp_lock.specs.Locked.{CameOf, IsFrom};
ghost use Rattle.tp_crowd.specs.Guests.{CarriesGuest};

use crate::ahead::Crew;
use crate::chronicle::{Chronicle, Visit, Visitor};
use crate::control::has_caller;
use crate::crowd::carry_over;
use crate::door::Door;
use crate::gate::{Caller, Gate, PLACES};
use crate::guest::{Guest, GuestDesk};
use crate::noticing::Unanswered;
use crate::pause::pause;
use crate::queue::RULERS;
use crate::ruling::{Askers, rule};
use crate::sockets::Socket;
use nbd_session::Profile;
use std::alloc::Global;
use std::marker::Brand;
use std::net::TcpStream;
use std::sync::atomic::{AtomicBool, Ordering};
use std::sync::{Mutex, Wait};
use std::thread;
use std::thread::Threads;
use std::time::Clock;
use tp_hub::{Answers, Desk, Event, Hub};
use tp_lock::{HubLock, LockedDesk, Start};
use tp_model::{DevId, Staged, Volumes};
use tp_msg::Managed;

/// When clients are told that it is over, so many seconds or so are left to them to take what they are answered.
const LAST_SECONDS: u32 = 5;

/// What serving without end gives back, when the last client has gone.
pub struct Stayed<V: Volumes> {
    pub hub: Hub<V>,
    /// Whether each thread could be made. Where one could not, nobody was let in any more.
    pub is_manned: bool,
    /// The control clients who said that it is to end: they may wait for what comes behind it, until their streams are let go of.
    pub askers: Vec<TcpStream>,
}

/// What the threads do for those who come.
trait Staff {
    /// Lets those in who come to a door, which has this index.
    fn welcome(&self, index: usize, door: &Door);

    /// Serves those who were let in, one after another, as the session of this number.
    fn serve(&self, number: u8)
        requires { number < 64 };

    /// Lets nobody in any more.
    fn shut(&self, doors: &[Door]);
}

/// Serves clients over a hub behind a lock.
#[derive(Drop)]
struct House<'m, R: Threads + Wait, V: Staged, A: Chronicle<V>, K: Start<V>> {
    rt: &'m R,
    alloc: Global,
    hub: &'m HubLock<'m, V, A, K>,
    gate: &'m Gate,
    crew: Crew,
}

impl<'m, R, V, A, K> House<'m, R, V, A, K>
where
    R: Threads + Wait + Clock,
    V: Managed + Staged,
    A: Chronicle<V>,
    K: Start<V>,
{
    /// Carries a client over the hub as the session of this number, up to its end, and tells which volume it had. What is made of its socket is what
    /// [`tp_hub::carry`] makes of a stream, each ask some runs, but that the end may be told before the socket told it.
    fn carry_guest(&self, number: u8, profile: Profile, guest: &mut Guest<'_, R>) -> Option<DevId>
        requires { number < 64 }
        ensures { CarriesGuest V.view number profile guest.old.socket.log.calls guest.new.socket.log.calls }
    {
        let mut desk = GuestDesk {
            desk: LockedDesk {
                rt: self.rt,
                alloc: self.alloc,
                hub: self.hub,
            },
            number,
            volume: None,
            unanswered: Unanswered::nothing(),
        };
        carry_over(self.alloc, &mut desk, number, profile, guest);
        desk.volume
    }

    /// Carries a client as the session of this number, up to its end.
    fn carry(&self, number: u8, stream: TcpStream) -> Visit
        requires { number < 64 }
    {
        let socket = Socket::new(self.rt, self.alloc, &self.crew, stream);
        let mut guest = Guest::new(socket, self.gate.is_over());
        let volume = self.carry_guest(number, self.gate.profile(), &mut guest);
        let visit = guest.visit(volume);
        guest.close();
        visit
    }

    /// Leaves one who has come to wait for a place, and tells if all are taken. False where nobody is let in any more.
    fn bring(&self, caller: Caller) -> bool {
        if self.gate.is_full(self.rt) {
            self.hub.alarm().waits(caller.door, caller.peer);
        }
        self.gate.bring(self.rt, caller)
    }

    /// Serves one client as the session of this number. It is sent away where its stream could not be ended from outside.
    fn serve_one(&self, number: u8, caller: Caller)
        requires { number < 64 }
    {
        let Caller { stream, door, peer } = caller;
        if let Err(error) = self.gate.enter(self.rt, number, &stream) {
            self.hub.alarm().not_accepted(&error);
            return;
        }
        let visitor = Visitor { number, door, peer };
        self.hub.alarm().came(&visitor);
        let visit = self.carry(number, stream);
        self.gate.leave(self.rt, number);
        self.hub.alarm().went(&visitor, &visit);
    }
}

impl<'m, R, V, A, K> Staff for House<'m, R, V, A, K>
where
    R: Threads + Wait + Clock,
    V: Managed + Staged,
    A: Chronicle<V>,
    K: Start<V>,
{
    fn welcome(&self, index: usize, door: &Door) {
        for _ in self.rt.forever() {
            match door.accept() {
                Ok((stream, peer)) => {
                    let caller = Caller {
                        stream,
                        door: index,
                        peer,
                    };
                    if !self.bring(caller) {
                        return;
                    }
                }
                Err(error) => {
                    if self.gate.is_shut(self.rt) {
                        return;
                    }
                    self.hub.alarm().not_accepted(&error);
                    pause(self.rt);
                }
            }
        }
    }

    fn serve(&self, number: u8) {
        for _ in self.rt.forever() {
            let Some(caller) = self.gate.next(self.rt) else {
                return;
            };
            self.serve_one(number, caller);
            self.gate.free(self.rt);
        }
    }

    fn shut(&self, doors: &[Door]) {
        self.gate.shut(self.rt, doors);
    }
}

/// Starts a thread for each door and each place, and waits for all of them. False where one could not be made: then nobody is let in any more.
fn attend_doors<R, S>(rt: &R, doors: &[Door], staff: &S) -> bool
where
    R: Threads + Wait,
    S: Staff + Sync,
{
    thread::scope(thread::scope_env(), rt, move |scope| -> bool {
        let mut is_manned = true;
        for (index, door) in doors.iter().enumerate() {
            let welcome = move || staff.welcome(index, door);
            if scope.spawn(welcome).is_err() {
                is_manned = false;
            }
        }
        for number in 0..PLACES {
            let serve = move || staff.serve(number);
            if scope.spawn(serve).is_err() {
                is_manned = false;
            }
        }
        if !is_manned {
            staff.shut(doors);
        }
        is_manned
    })
}

/// Serves those who come to the doors, and waits until all are gone.
fn attend_house<'m, R, V, A, K>(
    rt: &'m R,
    alloc: Global,
    hub: &'m HubLock<'m, V, A, K>,
    gate: &'m Gate,
    doors: &'m [Door],
) -> bool
where
    R: Threads + Wait + Clock + Sync,
    V: Managed + Staged + Send + Sync,
    V::Midway: Send + Sync,
    A: Chronicle<V> + Sync,
    K: Start<V> + Send + Sync,
{
    let processors = thread::available_parallelism(rt).map_or(1, |count| count.get());
    let house = House {
        rt,
        alloc,
        hub,
        gate,
        crew: Crew::new(processors),
    };
    attend_doors(rt, doors, &house)
}

/// Whether a client has connected to a door of control lines and has no place yet.
fn is_waited_at(gate: &Gate, control: Option<&Door>) -> bool {
    match control {
        None => false,
        Some(door) => {
            gate.control().waiting().load(Ordering::SeqCst) > 0 || has_caller(door.descriptor())
        }
    }
}

/// What a thread does beside those that serve clients.
trait Watch {
    /// Watches until all clients are gone.
    fn watch(&self);
}

/// Tells the pool's status about once a second, and whether a control client waits, until all are gone, and lets go of those who take no answers when it is
/// over. It is over when the pool has failed, too, if the chronicle says so.
#[derive(Drop)]
struct Watcher<'m, R: Threads + Wait, V: Staged, A: Chronicle<V>, K: Start<V>> {
    rt: &'m R,
    alloc: Global,
    hub: &'m HubLock<'m, V, A, K>,
    gate: &'m Gate,
    doors: &'m [Door],
    control: Option<&'m Door>,
}

impl<'m, R, V, A, K> Watch for Watcher<'m, R, V, A, K>
where
    R: Threads + Wait + Clock,
    V: Managed + Staged,
    A: Chronicle<V>,
    K: Start<V>,
{
    fn watch(&self) {
        let mut desk = LockedDesk {
            rt: self.rt,
            alloc: self.alloc,
            hub: self.hub,
        };
        let mut out = Answers::of_a_turn(self.alloc);
        let mut left = LAST_SECONDS;
        let mut waited = false;
        for _ in self.rt.forever() {
            desk.ask(Event::Status, &mut out);
            self.hub.alarm().status(out.bytes());
            out.clear();
            let waits = is_waited_at(self.gate, self.control);
            if waited && waits {
                self.hub.alarm().control_waits();
            }
            waited = waits;
            if self.hub.alarm().ends_on_failure() && self.hub.health().has_failed {
                self.gate.clear(self.rt, self.doors);
            }
            if self.gate.wait_for_end(self.rt) {
                return;
            }
            left = self.gate.hasten(self.rt, left);
        }
    }
}

/// Serves clients as `attend_house` does, and starts the thread that watches. False where a thread could not be made.
fn attend_beside<R, V, A, K, S>(
    rt: &R,
    alloc: Global,
    hub: &HubLock<'_, V, A, K>,
    gate: &Gate,
    doors: &[Door],
    watcher: &S,
) -> bool
where
    R: Threads + Wait + Clock + Sync,
    V: Managed + Staged + Send + Sync,
    V::Midway: Send + Sync,
    A: Chronicle<V> + Sync,
    K: Start<V> + Send + Sync,
    S: Watch + Sync,
{
    thread::scope(thread::scope_env(), rt, move |scope| -> bool {
        let side = move || watcher.watch();
        let is_watched = scope.spawn(side).is_ok();
        if !is_watched {
            gate.shut(rt, doors);
        }
        let is_manned = attend_house(rt, alloc, hub, gate, doors);
        gate.end(rt);
        is_watched && is_manned
    })
}

/// Serves clients as `attend_house` does, and beside that tells the pool's status, until all are gone.
fn attend_watched<'m, R, V, A, K>(
    rt: &'m R,
    alloc: Global,
    hub: &'m HubLock<'m, V, A, K>,
    gate: &'m Gate,
    doors: &'m [Door],
    control: Option<&'m Door>,
) -> bool
where
    R: Threads + Wait + Clock + Sync,
    V: Managed + Staged + Send + Sync,
    V::Midway: Send + Sync,
    A: Chronicle<V> + Sync,
    K: Start<V> + Send + Sync,
{
    let watcher = Watcher {
        rt,
        alloc,
        hub,
        gate,
        doors,
        control,
    };
    attend_beside(rt, alloc, hub, gate, doors, &watcher)
}

/// What threads do for control clients beside all others.
trait Rule {
    /// Answers control clients, one after another, until the others are gone.
    fn rule(&self);

    /// Called when the other clients are gone: no control client is answered any more.
    fn end(&self);
}

/// Answers control clients over a hub behind a lock, beside all others.
#[derive(Drop)]
struct Court<'m, R: Threads + Wait, V: Staged, A: Chronicle<V>, K: Start<V>> {
    rt: &'m R,
    alloc: Global,
    hub: &'m HubLock<'m, V, A, K>,
    gate: &'m Gate,
    doors: &'m [Door],
    control: &'m Door,
    askers: &'m Askers,
    are_gone: AtomicBool,
    /// Whether a control client gives way, and the next one was not accepted since.
    is_one_leaving: AtomicBool,
}

impl<'m, R, V, A, K> Rule for Court<'m, R, V, A, K>
where
    R: Threads + Wait + Clock,
    V: Managed + Staged,
    A: Chronicle<V>,
    K: Start<V>,
{
    fn rule(&self) {
        rule(
            self.rt,
            self.alloc,
            self.hub,
            self.gate,
            self.doors,
            self.control,
            &self.are_gone,
            &self.is_one_leaving,
            self.askers,
        );
    }

    fn end(&self) {
        self.are_gone.store(true, Ordering::SeqCst);
        self.control.shut();
    }
}

/// Starts the threads that answer control clients, and serves the others until they are gone. False where a thread could not be made.
fn attend_ruled<R, V, A, K, S>(
    rt: &R,
    alloc: Global,
    hub: &HubLock<'_, V, A, K>,
    gate: &Gate,
    doors: &[Door],
    control: &Door,
    court: &S,
) -> bool
where
    R: Threads + Wait + Clock + Sync,
    V: Managed + Staged + Send + Sync,
    V::Midway: Send + Sync,
    A: Chronicle<V> + Sync,
    K: Start<V> + Send + Sync,
    S: Rule + Sync,
{
    thread::scope(thread::scope_env(), rt, move |scope| -> bool {
        let mut is_ruled = true;
        for _ in 0..=RULERS {
            let side = move || court.rule();
            if scope.spawn(side).is_err() {
                is_ruled = false;
            }
        }
        if !is_ruled {
            gate.shut(rt, doors);
        }
        let is_manned = attend_watched(rt, alloc, hub, gate, doors, Some(control));
        court.end();
        is_ruled && is_manned
    })
}

/// The same, and beside them answers control clients until the others are gone.
fn attend_both<'m, R, V, A, K>(
    rt: &'m R,
    alloc: Global,
    hub: &'m HubLock<'m, V, A, K>,
    gate: &'m Gate,
    doors: &'m [Door],
    control: &'m Door,
    askers: &'m Askers,
) -> bool
where
    R: Threads + Wait + Clock + Sync,
    V: Managed + Staged + Send + Sync,
    V::Midway: Send + Sync,
    A: Chronicle<V> + Sync,
    K: Start<V> + Send + Sync,
{
    let court = Court {
        rt,
        alloc,
        hub,
        gate,
        doors,
        control,
        askers,
        are_gone: AtomicBool::new(false),
        is_one_leaving: AtomicBool::new(false),
    };
    attend_ruled(rt, alloc, hub, gate, doors, control, &court)
}

/// Serves clients without end, 64 at a time, from when they come to one of the doors, and offers this to each. Who comes when all places are taken waits. Each thread serves one client after
/// another, always as the session of one number.
///
/// Beside them it answers the lines of control clients, four of them at a time, as [`serve_listener_with_control`](crate::serve_listener_with_control) does. Up to
/// 64 more wait. One of these is answered `health` if it sends that at first, within a second, so that a monitor is answered while the others wait for the pool. A
/// control client that has sent `stop` or `stop now` gives way to no other one. Five
/// lines more are no messages to the pool. `flush` is a flush of it, answered `ok` when what was written is kept. `clients` tells how many are served, and the
/// ids of the volumes that they have in ascending order, one for each who has a volume: `3 of 64: 0 7 7`. `health` is answered `failed` when the
/// pool has failed, `stalled` and the age in seconds of a sync or a change that began 2 s ago or earlier, and else `ok`; it takes no lock, and no clause states that
/// the reply is true. When the pool has failed it ends as behind `stop now`, if the chronicle says so. Behind `stop` nobody is let in any more, and it ends
/// when the last client has gone; behind `stop now` nothing more is read of the clients, half a second later at most, and what was read of them is answered, as
/// far as they take the answers within some five seconds. Both are answered `ok` at once. Without a control door, and without these lines, it goes on for ever.
///
/// An accept that fails is made again, a tenth of a second later. A client at a TCP address whose
/// system does not answer any more is at its end two minutes later if it was silent, and else when
/// the system has retransmitted in vain what it was sent, some 15 minutes later.
///
/// The chronicle is told who comes, waits, is not accepted and goes, who names a volume that does not exist or is refused space, which control lines were
/// answered that they are done, but for flushes, and about once a second the pool's status line, and that a control client waits. When the pool has failed, its
/// alarm sounds once.
///
/// The hub that is given back came of the one that was given by runs one behind the other, as that of [`serve_all`](crate::serve_all) did. That clients are let in
/// for ever, and that it ends, no clause says.
pub fn serve_until_stopped<R, V, A>(
    rt: &R,
    alloc: Global,
    hub: Hub<V>,
    doors: &[Door],
    control: Option<&Door>,
    profile: Profile,
    chronicle: &A,
) -> Stayed<V>
where
    R: Threads + Wait + Clock + Sync,
    V: Managed + Staged + Send + Sync,
    V::Midway: Send + Sync,
    A: Chronicle<V> + Sync,
    ensures asked { CameOf V.view hub result.hub }
{
    stay_since::<R, V, A, Brand>(rt, alloc, hub, doors, control, profile, chronicle)
}

/// `serve_until_stopped` for a hub that is the start `K`, so that contracts know which hub came back.
fn stay_since<R, V, A, K>(
    rt: &R,
    alloc: Global,
    hub: Hub<V>,
    doors: &[Door],
    control: Option<&Door>,
    profile: Profile,
    chronicle: &A,
) -> Stayed<V>
where
    R: Threads + Wait + Clock + Sync,
    V: Managed + Staged + Send + Sync,
    V::Midway: Send + Sync,
    A: Chronicle<V> + Sync,
    K: Start<V> + Send + Sync,
    requires { K.is_start hub }
    ensures asked { IsFrom V.view K.is_start result.hub }
{
    let shared = HubLock::<V, A, K>::new(hub, chronicle);
    let gate = Gate::new(alloc, profile);
    let askers = Mutex::new(Vec::new(alloc));
    let is_manned = match control {
        None => attend_watched(rt, alloc, &shared, &gate, doors, None),
        Some(control) => attend_both(rt, alloc, &shared, &gate, doors, control, &askers),
    };
    Stayed {
        hub: shared.into_inner(),
        is_manned,
        askers: askers.into_inner(),
    }
}
