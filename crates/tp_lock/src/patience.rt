//! Whether a waiting thread spins or sleeps.

use libc::types::timespec;
use libc::{CLOCK_MONOTONIC, clock_gettime};
use std::sync::atomic::{AtomicU64, Ordering};
use std::{hint, thread};

/// In nanoseconds. A thread that yields its processor and has it back only after this time gave it to a program that has nothing to do with the pool: our own
/// threads and our clients keep it for less, and other programs on a busy machine for some milliseconds.
const LATE: u64 = 2_000_000;

/// How many waits sleep without spinning first, behind the first late one. Each further late one doubles that number.
const SHORTEST_PAUSE: u64 = 64;

/// The greatest such number.
const LONGEST_PAUSE: u64 = 8192;

/// How many times a wait that is to sleep tries before that, without yielding: some microseconds.
const LOOKS: u32 = 300;

/// Nanoseconds on a clock that only runs on, or 0 where there is none.
pub(crate) fn now() -> u64 {
    let mut time = timespec {
        tv_sec: 0,
        tv_nsec: 0,
    };
    if clock_gettime(CLOCK_MONOTONIC, &mut time) != 0 {
        return 0;
    }
    let seconds = time.tv_sec.unsigned_abs();
    seconds
        .saturating_mul(1_000_000_000)
        .saturating_add(time.tv_nsec.unsigned_abs())
}

/// Decides for a group of threads that wait for one another whether they spin or sleep. Waking a thread takes longer than most of these waits, so threads spin,
/// and yield between two tries. Where other programs keep the processors busy a yield costs milliseconds: then threads sleep, and now and then one of them
/// yields to see whether the machine is still so busy. Measured times decide how threads wait, and nothing else.
#[derive(Drop)]
pub struct Patience {
    /// How many waits are still to sleep at once.
    asleep: AtomicU64,
    /// How many are to do so when one is late.
    pause: AtomicU64,
}

impl Patience {
    /// For some who have not waited yet.
    pub fn new() -> Patience {
        Patience {
            asleep: AtomicU64::new(0),
            pause: AtomicU64::new(SHORTEST_PAUSE),
        }
    }

    /// Counts a wait that begins, and tells whether it is to be awake.
    fn begins_awake(&self) -> bool {
        let asleep = self.asleep.load(Ordering::SeqCst);
        if asleep > 0 {
            self.asleep.store(asleep - 1, Ordering::SeqCst);
        }
        asleep == 0
    }

    /// A wait begins.
    pub fn begin(&self) -> Waiting<'_> {
        Waiting {
            patience: self,
            is_awake: self.begins_awake(),
            looks: LOOKS,
        }
    }

    /// Whoever let others run had its processor back soon: the next pause is a little shorter.
    fn shorten_pause(&self) {
        let pause = self.pause.load(Ordering::SeqCst);
        if pause > SHORTEST_PAUSE {
            self.pause.store(pause - pause / 32 - 1, Ordering::SeqCst);
        }
    }

    /// It was late: a pause begins, and the next one is twice as long.
    fn begin_pause(&self) {
        let pause = self.pause.load(Ordering::SeqCst);
        self.asleep.store(pause, Ordering::SeqCst);
        let longer = pause.saturating_mul(2).min(LONGEST_PAUSE);
        self.pause.store(longer, Ordering::SeqCst);
    }

    /// Lets others run once, and tells whether it pays to wait on.
    fn lets_others_run(&self) -> bool {
        let began = now();
        thread::yield_now();
        let is_soon = now().saturating_sub(began) < LATE;
        if is_soon {
            self.shorten_pause();
        } else {
            self.begin_pause();
        }
        is_soon
    }
}

/// One wait.
#[derive(Clone, Copy)]
pub struct Waiting<'p> {
    patience: &'p Patience,
    is_awake: bool,
    /// How often it may still try where it is not awake.
    looks: u32,
}

impl<'p> Waiting<'p> {
    /// Whether it is awake for longer than some microseconds.
    pub fn is_awake(&self) -> bool {
        self.is_awake
    }

    /// Behind one try: whether there is to be another one. Else one sleeps.
    pub fn goes_on(&mut self) -> bool {
        if self.is_awake {
            return self.patience.lets_others_run();
        }
        let Some(looks) = self.looks.checked_sub(1) else {
            return false;
        };
        self.looks = looks;
        hint::spin_loop();
        true
    }
}
