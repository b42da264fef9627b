//! Which clients are accepted, which are served now, and how both come to an end.

use crate::door::Door;
use crate::queue::Queue;
use nbd_session::Profile;
use std::alloc::Global;
use std::io;
use std::net::{Shutdown, SocketAddr, TcpStream};
use std::sync::atomic::{AtomicBool, Ordering};
use std::sync::{Condvar, Mutex, Wait};
use std::time::{Clock, Duration};

/// How many clients are served at a time.
pub(crate) const PLACES: u8 = 64;

/// The longest single wait for the end, in milliseconds.
const LOOK: u64 = 1000;

/// A client that has connected and is not served yet.
#[derive(Drop)]
pub(crate) struct Caller {
    pub(crate) stream: TcpStream,
    /// The door, by its index.
    pub(crate) door: usize,
    /// Where it comes from, at a TCP address.
    pub(crate) peer: Option<SocketAddr>,
}

/// A place for one client: another handle of its stream, by which the stream can be ended from outside.
type ClientPlace = Mutex<Option<TcpStream>>;

/// An empty place.
fn nobody(_number: usize) -> ClientPlace {
    Mutex::new(None)
}

/// Puts a client into a place, or empties it.
fn put<R: Wait>(rt: &R, place: &ClientPlace, client: Option<TcpStream>) {
    let mut place = place.lock(rt);
    *place = client;
}

/// The client that has connected and waits for a free place, and whether new clients are refused.
#[derive(Drop)]
struct Porch {
    caller: Option<Caller>,
    is_shut: bool,
    /// How many places are free.
    free: u8,
}

/// Hands connected clients to the threads that serve them, one at a time, and knows the streams of the up to 64 that are served.
#[derive(Drop)]
pub(crate) struct Gate {
    porch: Mutex<Porch>,
    has_come: Condvar,
    is_taken: Condvar,
    places: [ClientPlace; 64],
    /// What is offered to each.
    profile: Profile,
    /// The places of control clients, and the clients that wait for one.
    control: Queue,
    /// Whether no more is read of the clients that are served.
    is_over: AtomicBool,
    /// Whether the last client has gone, and no new one will come.
    is_empty: Mutex<bool>,
    empties: Condvar,
}

impl Gate {
    ghost use Rattle.std.specs.Prelude.{◌<◌};

    /// Nobody has come yet.
    pub(crate) fn new(alloc: Global, profile: Profile) -> Gate {
        Gate {
            profile,
            control: Queue::new(alloc),
            porch: Mutex::new(Porch {
                caller: None,
                is_shut: false,
                free: PLACES,
            }),
            has_come: Condvar::new(),
            is_taken: Condvar::new(),
            places: std::array::from_fn(nobody),
            is_over: AtomicBool::new(false),
            is_empty: Mutex::new(false),
            empties: Condvar::new(),
        }
    }

    /// The places of control clients, and the clients that wait for one.
    pub(crate) fn control(&self) -> &Queue {
        &self.control
    }

    /// What is offered to each who is let in.
    pub(crate) fn profile(&self) -> Profile {
        self.profile
    }

    /// Whether nobody is let in any more.
    pub(crate) fn is_shut<R: Wait>(&self, rt: &R) -> bool {
        self.porch.lock(rt).is_shut
    }

    /// Whether no more is read of the clients that are served.
    pub(crate) fn is_over(&self) -> &AtomicBool {
        &self.is_over
    }

    /// Whether one who comes now has to wait for a place.
    pub(crate) fn is_full<R: Wait>(&self, rt: &R) -> bool {
        let porch = self.porch.lock(rt);
        porch.free == 0 || porch.caller.is_some() && porch.free == 1
    }

    /// Waits until nobody else waits for a place, and leaves this one to wait. False where nobody is let in any more: then it is sent away.
    pub(crate) fn bring<R: Wait>(&self, rt: &R, caller: Caller) -> bool {
        let porch = self.porch.lock(rt);
        let mut porch = self.is_taken.wait_while(
            rt,
            porch,
            |porch| porch.caller.is_some() && !porch.is_shut,
        );
        if porch.is_shut {
            return false;
        }
        porch.caller = Some(caller);
        drop(porch);
        self.has_come.notify_one();
        true
    }

    /// Waits for the next one who comes. None where nobody is let in any more.
    pub(crate) fn next<R: Wait>(&self, rt: &R) -> Option<Caller> {
        let porch = self.porch.lock(rt);
        let mut porch = self.has_come.wait_while(
            rt,
            porch,
            |porch| porch.caller.is_none() && !porch.is_shut,
        );
        if porch.is_shut {
            return None;
        }
        let caller = porch.caller.take();
        porch.free = porch.free.saturating_sub(1);
        drop(porch);
        self.is_taken.notify_one();
        caller
    }

    /// Notes who is in a place. An error where the system has no other handle of the stream: then its reads could not be ended.
    pub(crate) fn enter<R: Wait>(&self, rt: &R, number: u8, client: &TcpStream) -> io::Result<()>
        requires { number < 64 }
    {
        let other = client.try_clone()?;
        put(rt, &self.places[usize::from(number)], Some(other));
        Ok(())
    }

    /// Nobody is in the place any more.
    pub(crate) fn leave<R: Wait>(&self, rt: &R, number: u8)
        requires { number < 64 }
    {
        put(rt, &self.places[usize::from(number)], None);
    }

    /// A place that `next` gave is free again.
    pub(crate) fn free<R: Wait>(&self, rt: &R) {
        let mut porch = self.porch.lock(rt);
        porch.free = porch.free.saturating_add(1);
    }

    /// Lets nobody in by these doors from now on, and sends away who waits for a place.
    pub(crate) fn shut<R: Wait>(&self, rt: &R, doors: &[Door]) {
        let mut porch = self.porch.lock(rt);
        porch.is_shut = true;
        porch.caller = None;
        drop(porch);
        self.has_come.notify_all();
        self.is_taken.notify_all();
        for door in doors {
            door.shut();
        }
    }

    /// Refuses new clients as `shut` does, and has the threads of those that are served read no more:
    /// what was read of them is still answered.
    ///
    /// A thread that waits for its client sees that within half a second. The streams are not shut
    /// down for reading: TCP would reset each whose client sends more, and the answers were lost.
    pub(crate) fn clear<R: Wait>(&self, rt: &R, doors: &[Door]) {
        self.shut(rt, doors);
        self.is_over.store(true, Ordering::SeqCst);
    }

    /// Ends the streams of all clients that are served, for reading and for writing.
    fn end_streams<R: Wait>(&self, rt: &R) {
        for place in &self.places {
            if let Some(client) = &*place.lock(rt) {
                let _ = client.shutdown(Shutdown::Both);
            }
        }
    }

    /// Called about once a second. If no more is read of clients, they have `left` seconds more to
    /// take their answers: with none left, their streams are ended. Returns how many seconds are left
    /// after this one.
    pub(crate) fn hasten<R: Wait>(&self, rt: &R, left: u32) -> u32 {
        if !self.is_over.load(Ordering::SeqCst) {
            return left;
        }
        if left == 0 {
            self.end_streams(rt);
            return 0;
        }
        left - 1
    }

    /// Notes that nobody is within any more, nor will be.
    pub(crate) fn end<R: Wait>(&self, rt: &R) {
        *self.is_empty.lock(rt) = true;
        self.empties.notify_all();
    }

    /// Waits a second at most for the last client to go, and tells whether it has gone.
    pub(crate) fn wait_for_end<R: Wait + Clock>(&self, rt: &R) -> bool {
        let is_empty = self.is_empty.lock(rt);
        let (is_empty, _) = self.empties.wait_timeout_while(
            rt,
            is_empty,
            Duration::from_millis(LOOK),
            |is_empty| !*is_empty,
        );
        *is_empty
    }
}
