//! Control clients that were accepted and wait until one of the places for them is free.

use std::alloc::Global;
use std::net::TcpStream;
use std::sync::atomic::{AtomicU64, Ordering};
use std::sync::{Mutex, Wait};

/// How many control clients have a place. All their lines are answered, of any other client only
/// `health`.
pub(crate) const RULERS: u8 = 4;

/// The most control clients that wait for a place. Further ones are disconnected.
const MOST_WAITING: usize = 64;

/// The count of free places, and the clients that wait for one, in order. No client waits while a place
/// is free.
#[derive(Drop)]
struct Places {
    free: u8,
    waiting: Vec<TcpStream>,
}

/// Assigns the places to control clients. A thread that took a place has it until `next` returns `None`.
#[derive(Drop)]
pub(crate) struct Queue {
    places: Mutex<Places>,
    /// How many clients wait, to be read without the lock.
    waiting: AtomicU64,
}

impl Queue {
    /// All places are free.
    pub(crate) fn new(alloc: Global) -> Queue {
        Queue {
            places: Mutex::new(Places {
                free: RULERS,
                waiting: Vec::new(alloc),
            }),
            waiting: AtomicU64::new(0),
        }
    }

    /// How many clients wait for a place.
    pub(crate) fn waiting(&self) -> &AtomicU64 {
        &self.waiting
    }

    /// Takes a place, if one is free.
    pub(crate) fn take_place<R: Wait>(&self, rt: &R) -> bool {
        let mut places = self.places.lock(rt);
        let is_free = places.free > 0;
        places.free = places.free.saturating_sub(1);
        is_free
    }

    /// Takes a place for a client, and returns the client. If no place is free, the client waits, or is
    /// disconnected if 64 wait or if there is no memory.
    pub(crate) fn enter<R: Wait>(&self, rt: &R, client: TcpStream) -> Option<TcpStream> {
        let mut places = self.places.lock(rt);
        if places.free > 0 {
            places.free = places.free.saturating_sub(1);
            return Some(client);
        }
        if places.waiting.len() < MOST_WAITING && places.waiting.push(client).is_ok() {
            self.waiting.fetch_add(1, Ordering::SeqCst);
        }
        None
    }

    /// Passes a place on to the client that has waited longest. If no client waits, the place is free.
    pub(crate) fn next<R: Wait>(&self, rt: &R) -> Option<TcpStream> {
        let mut places = self.places.lock(rt);
        if places.waiting.is_empty() {
            places.free = places.free.saturating_add(1);
            return None;
        }
        self.waiting.fetch_sub(1, Ordering::SeqCst);
        Some(places.waiting.remove(0))
    }
}
