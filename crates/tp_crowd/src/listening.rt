//! The clients of a listener.

ghost use Rattle.std.specs.Prelude.{◌≡◌, ◌≤◌};
ghost use Rattle.std.specs.Iterator.{IsFinite, size};
ghost use Rattle.tp_lock.specs.Locked.{CameOf, IsFrom};

use crate::ahead::Crew;
use crate::crowd::{
    Attend, RefusedFlags, Served, attend_all, behind_all, carry_stream, not_refused, refused_by_now,
};
use crate::sockets::Socket;
use nbd_session::Profile;
use std::alloc::Global;
use std::marker::Brand;
use std::net::{TcpListener, TcpStream};
use std::sync::Wait;
use std::thread;
use std::thread::Threads;
use std::time::Clock;
use tp_hub::Hub;
use tp_lock::{Alarm, HubLock, Start};
use tp_model::Staged;
use tp_msg::Managed;

/// Clients as a listener accepts them, up to a number of them. An accept that fails ends them. The listener is closed with it.
#[derive(Drop)]
pub(crate) struct Accepted {
    listener: TcpListener,
    left: u8,
}

impl Accepted {
    /// So many clients of a listener.
    pub(crate) fn new(listener: TcpListener, count: u8) -> Accepted
        ensures { result.left ≡ count }
    {
        Accepted {
            listener,
            left: count,
        }
    }
}

impl Iterator for Accepted {
    ghost use Rattle.std.specs.Prelude.{◌≡◌, ◌+◌, MatchOption};
    ghost use Rattle.std.specs.Iterator.{at_most};

    type Item = TcpStream;

    ghost next_gives = { λ s taken t. MatchOption taken (t.left ≡ 0) (λ _. t.left + 1 ≡ s.left) };

    ghost remaining = { λ s. at_most s.left };

    fn next(&mut self) -> Option<TcpStream> {
        if self.left == 0 {
            return None;
        }
        self.left -= 1;
        match self.listener.accept() {
            Ok((stream, _)) => Some(stream),
            Err(_) => {
                self.left = 0;
                None
            }
        }
    }
}

/// Carries TCP streams over a hub behind a lock.
#[derive(Drop)]
struct Sockets<'m, R: Threads + Wait, V: Staged, A: Alarm<V>, K: Start<V>> {
    rt: &'m R,
    alloc: Global,
    hub: &'m HubLock<'m, V, A, K>,
    crew: Crew,
}

impl<'m, R: Threads + Wait, V: Staged, A: Alarm<V>, K: Start<V>> Sockets<'m, R, V, A, K> {
    /// Where it is not known how many processors there are, there is one.
    fn new(rt: &'m R, alloc: Global, hub: &'m HubLock<'m, V, A, K>) -> Sockets<'m, R, V, A, K> {
        let processors = thread::available_parallelism(rt).map_or(1, |count| count.get());
        Sockets {
            rt,
            alloc,
            hub,
            crew: Crew::new(processors),
        }
    }
}

impl<'m, R, V, A, K> Attend<TcpStream> for Sockets<'m, R, V, A, K>
where
    R: Threads + Wait + Clock,
    V: Managed + Staged,
    A: Alarm<V>,
    K: Start<V>,
{
    fn attend(&self, number: u8, stream: TcpStream) -> bool {
        let mut socket = Socket::new(self.rt, self.alloc, &self.crew, stream);
        let is_carried = carry_stream(
            self.rt,
            self.alloc,
            self.hub,
            number,
            Profile::Strict,
            &mut socket,
        );
        socket.close();
        is_carried
    }
}

/// Carries TCP streams over a hub, each on a thread of its own, lets go of who gave them behind the last one, and tells how many came when all are done.
pub(crate) fn attend_streams<'m, R, V, A, K, I>(
    rt: &'m R,
    alloc: Global,
    hub: &'m HubLock<'m, V, A, K>,
    refused: &'m RefusedFlags,
    clients: I,
) -> u8
where
    R: Threads + Wait + Clock + Sync,
    V: Managed + Staged + Send + Sync,
    V::Midway: Send + Sync,
    A: Alarm<V> + Sync,
    K: Start<V> + Send + Sync,
    I: Iterator<Item = TcpStream> + Drop,
    requires can { I.can_next clients }
    requires ends { IsFinite (I.remaining clients) }
    ensures few { result ≤ 64 }
    ensures offered { result ≤ size (I.remaining clients) }
{
    let sockets = Sockets::new(rt, alloc, hub);
    attend_all(rt, refused, clients, &sockets)
}

/// Serves so many clients of a listener, at most 64, each from when it is accepted. An accept that fails ends the list: then fewer came. When the last one has
/// come, or an accept has failed, the listener is closed, so that the system refuses who comes then, while those who came are served. When the pool has failed,
/// the alarm sounds once.
pub fn serve_listener<R, V, A>(
    rt: &R,
    alloc: Global,
    hub: Hub<V>,
    listener: TcpListener,
    count: u8,
    alarm: &A,
) -> Served<V>
where
    R: Threads + Wait + Clock + Sync,
    V: Managed + Staged + Send + Sync,
    V::Midway: Send + Sync,
    A: Alarm<V> + Sync,
    ensures asked { CameOf V.view hub result.hub }
    ensures came { result.came ≤ 64 }
    ensures offered { result.came ≤ count }
    ensures refused { result.refused ≤ result.came }
{
    serve_since::<R, V, A, Brand>(rt, alloc, hub, listener, count, alarm)
}

/// The same of a hub that is such a start.
fn serve_since<R, V, A, K>(
    rt: &R,
    alloc: Global,
    hub: Hub<V>,
    listener: TcpListener,
    count: u8,
    alarm: &A,
) -> Served<V>
where
    R: Threads + Wait + Clock + Sync,
    V: Managed + Staged + Send + Sync,
    V::Midway: Send + Sync,
    A: Alarm<V> + Sync,
    K: Start<V> + Send + Sync,
    requires { K.is_start hub }
    ensures asked { IsFrom V.view K.is_start result.hub }
    ensures came { result.came ≤ 64 }
    ensures offered { result.came ≤ count }
    ensures refused { result.refused ≤ result.came }
{
    let shared = HubLock::<V, A, K>::new(hub, alarm);
    let refused = std::array::from_fn(not_refused);
    let clients = Accepted::new(listener, count);
    let came = attend_streams(rt, alloc, &shared, &refused, clients);
    behind_all(shared, &refused_by_now(&refused), came)
}
