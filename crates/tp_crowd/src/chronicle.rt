//! What is told of those who are served without end.

use std::io;
use std::net::SocketAddr;
use tp_lock::Alarm;
use tp_model::DevId;

/// One who has come, and has a place.
#[derive(Clone, Copy, Debug)]
pub struct Visitor {
    /// The number of its session, 0 to 63.
    pub number: u8,
    /// The door that it came by, by its index among the doors.
    pub door: usize,
    /// Where it comes from; nothing of one who came by a socket file.
    pub peer: Option<SocketAddr>,
}

/// What became of one who has gone.
#[derive(Clone, Copy, Debug)]
pub struct Visit {
    /// The volume that it had, if it had one.
    pub volume: Option<DevId>,
    /// How many requests it sent.
    pub requests: u64,
    /// How many bytes were read from its stream.
    pub received: u64,
    /// How many bytes were written to it.
    pub sent: u64,
}

/// Who is told what becomes of those who are served without end. Each call is made by one of their threads, while that has no lock: others go on meanwhile, and this
/// one waits.
pub trait Chronicle<V>: Alarm<V> {
    /// One has come, and has a place.
    fn came(&self, visitor: &Visitor);

    /// It has gone, and its place is free.
    fn went(&self, visitor: &Visitor, visit: &Visit);

    /// A control line was answered that it is done.
    fn obeyed(&self, line: &[u8]);

    /// The pool's status line, as it is about once a second.
    fn status(&self, line: &[u8]);

    /// A client that has connected to this door waits, since all places are taken.
    fn waits(&self, door: usize, peer: Option<SocketAddr>);

    /// A control client waits, since as many as are answered at a time are connected.
    fn control_waits(&self);

    /// A client was not accepted, or was sent away, for this error of the system.
    fn not_accepted(&self, error: &io::Error);

    /// A client of this number named a volume that does not exist, in an option GO.
    fn no_volume(&self, number: u8, name: &[u8]);

    /// Whether the server ends when the pool has failed.
    fn ends_on_failure(&self) -> bool;

    /// A request of a client of this number was refused for lack of space.
    fn no_space(&self, number: u8);
}
