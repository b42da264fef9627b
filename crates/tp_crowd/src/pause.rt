//! How long those wait who try again.

use std::thread;
use std::time::{Clock, Duration};

/// So many milliseconds those wait who try again, or look whether all is over.
pub(crate) const PAUSE: u64 = 100;

/// Waits so long.
pub(crate) fn pause<C: Clock>(clock: &C) {
    thread::sleep(clock, Duration::from_millis(PAUSE));
}
