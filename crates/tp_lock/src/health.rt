//! How the pool behind a lock is, as a line of text.

ghost use Rattle.std.specs.Prelude.{◌<◌, take};
ghost use Rattle.tp_lock.specs.Health.{IsHealth};

use crate::census::{put, put_number};

/// The most bytes of such a line.
pub const HEALTH: usize = 32;

/// In seconds. A sync or a change in progress that is younger is reported as `ok`.
const STALLED: u64 = 2;

/// What a lock recorded of its pool.
#[derive(Clone, Copy, Debug)]
pub struct Health {
    /// The pool has failed: no request is served until the pool is opened again.
    pub has_failed: bool,
    /// The age of the sync or the change in progress, in seconds, or 0 if there is none.
    pub seconds: u64,
}

/// Writes `failed`, `ok` or `stalled SECONDS`, and returns where the line ends.
pub fn put_health(health: Health, out: &mut [u8; HEALTH]) -> usize
    ensures line { IsHealth health (take result out.new) }
    ensures fits { result < 32 }
{
    if health.has_failed {
        return put(out, 0, b"failed");
    }
    if health.seconds < STALLED {
        return put(out, 0, b"ok");
    }
    let end = put(out, 0, b"stalled ");
    put_number(out, end, health.seconds)
}
