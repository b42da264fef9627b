//! A call that waits for another one on a thread of its own.

use std::sync::Wait;
use std::sync::atomic::{AtomicBool, Ordering};
use std::thread;
use std::time::{Clock, Duration};

/// So often, and so many milliseconds each time, one waits for a thread to begin.
const TURNS: u32 = 500;

const PAUSE: u64 = 10;

/// Whether a thread has begun, which says so. Where there is none, `std::thread::join` makes its call behind the other one, which may not wait for it then.
pub(crate) fn has_begun<H: Wait + Clock>(rt: &H, begun: &AtomicBool) -> bool {
    for _ in 0..TURNS {
        if begun.load(Ordering::SeqCst) {
            return true;
        }
        thread::sleep(rt, Duration::from_millis(PAUSE));
    }
    false
}
