//! Lives of a hub on caches: it serves, is stopped in a way of one's choice, and serves again.
ghost use Rattle.std.specs.Prelude.{◌≡◌, ◌⊎◌, ◌<◌, All, IfErr, IfOk, IsTrue, map};
ghost use Rattle.std.specs.FinMap.{empty};
ghost use Rattle.tp_model.specs.Clauses.{IsOpened, PoolCall, TracedCall, outline_of_traced};
ghost use Rattle.tp_model.specs.Disk.{IsSettled, seen};
ghost use Rattle.tp_model.specs.Pool.{PlainPool};
ghost use Rattle.tp_disk.specs.Memory.{mem_state};
ghost use Rattle.tp_image.specs.Fresh.{empty_pool};
ghost use Rattle.tp_check.specs.declared.error.CheckError.{CheckError};
ghost use Rattle.tp_meta.specs.Standing.{StandsFor, changed_of, geometry_of, marks_of, room_of};
ghost use Rattle.tp_pool.specs.Held.{IsSomePool};
ghost use Rattle.tp_served.specs.Served.{cached};
ghost use Rattle.nbd_session.specs.Clauses.{GoesWithTrace};
ghost use Rattle.tp_hub.specs.Runs.{incoming, session_of, taken_of};
ghost use Rattle.tp_users.specs.Left.{IsLeftUnder};
ghost use Rattle.tp_users.specs.Lived.{IsFirstLife, IsLived, IsNextLife};
ghost use Rattle.tp_users.specs.Lives.{AreTwoLives, IsLed, IsOpenedAs, IsStopped};
ghost use Rattle.tp_users.specs.Users.{IsOutside};

use crate::checked::check_left_under;
use std::alloc::Global;
use tp_cache::ReadCache;
use tp_check::CheckError;
use tp_disk::{MemDisk, picks_are_stops};
use tp_hub::{Answers, Event, Hub, Ran, hub_lives_are_plain};
use tp_image::fresh_image_stands_for_the_empty_pool;
use tp_meta::Meta;
use tp_model::{Geometry, Refusal};
use tp_msg::Managed;
use tp_pool::stops_leave_pools;
use tp_served::{Room, Served};

/// A hub of a pool, without sessions, takes events; then all its sessions end. The pool, and how much was taken.
pub(crate) fn led<V: Managed>(
    alloc: Global,
    pool: V,
    events: &[Event<'_>],
    out: &mut Answers,
) -> (V, Ran)
    requires numbers { All (λ e. session_of e < 64) events.now }
    requires free { (V.view.outline pool).holds ≡ empty }
    ensures led { IsLed V.view.outline (PoolCall V.view) pool (taken_of (map incoming events.now) result.1.events result.1.bytes) out.old out.new result.0 }
    ensures traced { GoesWithTrace V.view pool result.0 (λ t t'. IsLed outline_of_traced (TracedCall V.view.has_use) t
        (taken_of (map incoming events.now) result.1.events result.1.bytes) out.old out.new t') }
{
    let mut hub = Hub::new(pool);
    let ran = hub.run(alloc, events, out);
    (hub.into_pool(), ran)
}

/// A pool on caches over a new disk in memory.
fn formatted(
    alloc: Global,
    geometry: Geometry,
    room: Room,
) -> Result<Served<ReadCache<MemDisk>, Meta>, Refusal>
    ensures opened { IfOk result (λ pool. IsOpenedAs (cached geometry_of StandsFor marks_of room_of changed_of) (empty_pool geometry) pool) }
    ensures only { IfErr result (λ reason. IsOutside reason) }
{
    fresh_image_stands_for_the_empty_pool();
    stops_leave_pools::<Meta>();
    let Ok(disk) = MemDisk::new(alloc, geometry.image_sectors()) else {
        return Err(Refusal::Memory);
    };
    match Served::format(alloc, disk, geometry, room) {
        Ok(pool) => Ok(pool),
        Err((refusal, _)) => Err(refusal),
    }
}

/// Stops a disk in a way of one's choice: the disk that is left.
pub(crate) fn stopped(alloc: Global, disk: &MemDisk, picks: &[u64]) -> Result<MemDisk, Refusal>
    ensures stopped { IfOk result (λ left. IsStopped (mem_state disk.now) (mem_state left)) }
    ensures only { IfErr result (λ reason. reason ≡ Refusal.Memory) }
{
    picks_are_stops();
    match disk.stop(alloc, picks) {
        Ok(left) => Ok(left),
        Err(_) => Err(Refusal::Memory),
    }
}

/// Opens a pool on caches from what a stop left.
fn opened(
    alloc: Global,
    disk: MemDisk,
    room: Room,
) -> Result<Served<ReadCache<MemDisk>, Meta>, Refusal>
    ensures opened { IfOk result (λ pool. IsTrue (mem_state disk).is_honest → IsSettled (mem_state disk).cells
        → IsOpened (cached geometry_of StandsFor marks_of room_of changed_of) (seen (mem_state disk).cells) pool) }
    ensures only { IsTrue (mem_state disk).is_honest → IsSomePool (seen (mem_state disk).cells) → IfErr result (λ reason. IsOutside reason) }
{
    match Served::open(alloc, disk, room) {
        Ok(pool) => Ok(pool),
        Err((refusal, _)) => Err(refusal),
    }
}

/// What a stop leaves of a disk, beside how much was taken before it.
pub(crate) fn left_beside(
    alloc: Global,
    ran: Ran,
    disk: &MemDisk,
    picks: &[u64],
) -> Result<(Ran, MemDisk), Refusal>
    ensures left { IfOk result (λ r. (ran ≡ r.0) × IsStopped (mem_state disk.now) (mem_state r.1)) }
    ensures only { IfErr result (λ reason. reason ≡ Refusal.Memory) }
{
    let left = stopped(alloc, disk, picks)?;
    Ok((ran, left))
}

/// A hub over a pool takes events, and is stopped in a way of one's choice: how much was taken, and the disk that is left.
fn lived(
    alloc: Global,
    pool: Served<ReadCache<MemDisk>, Meta>,
    events: &[Event<'_>],
    picks: &[u64],
    out: &mut Answers,
) -> Result<(Ran, MemDisk), Refusal>
    requires numbers { All (λ e. session_of e < 64) events.now }
    requires free { ((cached geometry_of StandsFor marks_of room_of changed_of).outline pool).holds ≡ empty }
    ensures lived { IfOk result (λ r. IsLived (cached geometry_of StandsFor marks_of room_of changed_of) pool
        (taken_of (map incoming events.now) r.0.events r.0.bytes) out.old out.new (seen (mem_state r.1).cells)) }
    ensures honest { IfOk result (λ r. IsTrue (mem_state r.1).is_honest) }
    ensures settled { IfOk result (λ r. IsSettled (mem_state r.1).cells) }
    ensures left { IfOk result (λ r. (s : PlainPool) → IsOpenedAs (cached geometry_of StandsFor marks_of room_of changed_of) s pool
        → IsLeftUnder geometry_of StandsFor marks_of room_of changed_of (seen (mem_state r.1).cells)) }
    ensures only { IfErr result (λ reason. IsOutside reason) }
{
    let (pool, ran) = led(alloc, pool, events, out);
    pool.facts();
    left_beside(alloc, ran, pool.disk(), picks)
}

/// The first life: the pool is on a new disk in memory.
fn first_life(
    alloc: Global,
    geometry: Geometry,
    room: Room,
    events: &[Event<'_>],
    picks: &[u64],
    out: &mut Answers,
) -> Result<(Ran, MemDisk), Refusal>
    requires { All (λ e. session_of e < 64) events.now }
    ensures lived { IfOk result (λ r. IsFirstLife (cached geometry_of StandsFor marks_of room_of changed_of) (empty_pool geometry)
        (taken_of (map incoming events.now) r.0.events r.0.bytes) out.old out.new (seen (mem_state r.1).cells)) }
    ensures honest { IfOk result (λ r. IsTrue (mem_state r.1).is_honest) }
    ensures settled { IfOk result (λ r. IsSettled (mem_state r.1).cells) }
    ensures left { IfOk result (λ r. IsLeftUnder geometry_of StandsFor marks_of room_of changed_of (seen (mem_state r.1).cells)) }
    ensures only { IfErr result (λ reason. IsOutside reason) }
{
    let pool = formatted(alloc, geometry, room)?;
    lived(alloc, pool, events, picks, out)
}

/// A later life: the pool is opened from what a stop left.
fn next_life(
    alloc: Global,
    disk: MemDisk,
    room: Room,
    events: &[Event<'_>],
    picks: &[u64],
    out: &mut Answers,
) -> Result<(Ran, MemDisk), Refusal>
    requires numbers { All (λ e. session_of e < 64) events.now }
    requires honest { IsTrue (mem_state disk).is_honest }
    requires settled { IsSettled (mem_state disk).cells }
    requires found { (s : PlainPool) × (cached geometry_of StandsFor marks_of room_of changed_of).stands_for (seen (mem_state disk).cells) s }
    ensures lived { IfOk result (λ r. IsNextLife (cached geometry_of StandsFor marks_of room_of changed_of) (seen (mem_state disk).cells)
        (taken_of (map incoming events.now) r.0.events r.0.bytes) out.old out.new (seen (mem_state r.1).cells)) }
    ensures only { IfErr result (λ reason. IsOutside reason) }
{
    let pool = opened(alloc, disk, room)?;
    lived(alloc, pool, events, picks, out)
}

/// A hub on caches over a new disk in memory takes events, and is stopped in a way of one's choice; then one that is opened from what that left takes events,
/// and is stopped too. Both lives are lives of the plain hub: what was answered is what plain volumes answer, from the pool without volumes on, and in the
/// second life from one that may be found after the stop. How much each took, and the disk that the last stop left.
///
/// It refuses where there is no memory, or where the disk fails.
pub fn hub_lives_twice(
    alloc: Global,
    geometry: Geometry,
    room: Room,
    first: &[Event<'_>],
    picks: &[u64],
    second: &[Event<'_>],
    last_picks: &[u64],
    told: &mut Answers,
    told_again: &mut Answers,
) -> Result<(Ran, Ran, MemDisk), Refusal>
    requires first { All (λ e. session_of e < 64) first.now }
    requires second { All (λ e. session_of e < 64) second.now }
    ensures lives { IfOk result (λ r. AreTwoLives (cached geometry_of StandsFor marks_of room_of changed_of) (empty_pool geometry)
        (taken_of (map incoming first.now) r.0.events r.0.bytes) (taken_of (map incoming second.now) r.1.events r.1.bytes)
        told.old told.new told_again.old told_again.new (seen (mem_state r.2).cells)) }
    ensures only { IfErr result (λ reason. IsOutside reason) }
{
    hub_lives_are_plain::<Served<ReadCache<MemDisk>, Meta>>();
    let (one, disk) = first_life(alloc, geometry, room, first, picks, told)?;
    let (two, disk) = next_life(alloc, disk, room, second, last_picks, told_again)?;
    Ok((one, two, disk))
}

/// The error of a check that could not be made for this cause.
fn not_made(refusal: Refusal) -> CheckError
    ensures { (result ≡ CheckError.Fault) ⊎ (result ≡ CheckError.Memory) }
{
    match refusal {
        Refusal::Fault => CheckError::Fault,
        _ => CheckError::Memory,
    }
}

/// How much was taken, where the disk that was left then is found clean.
fn taken_if_clean(alloc: Global, ran: Ran, disk: MemDisk) -> Result<Ran, CheckError>
    requires honest { IsTrue (mem_state disk).is_honest }
    requires left { IsLeftUnder geometry_of StandsFor marks_of room_of changed_of (seen (mem_state disk).cells) }
    ensures { IfErr result (λ e. (e ≡ CheckError.Fault) ⊎ (e ≡ CheckError.Memory)) }
{
    let mut disk = disk;
    check_left_under::<Meta, MemDisk>(alloc, &mut disk)?;
    Ok(ran)
}

/// A hub on caches over a new disk in memory takes events, and is stopped in a way of one's choice; then what that left is checked: it is clean, or the
/// check could not be made, for want of memory or since the disk failed.
pub fn hub_leaves_a_clean_image(
    alloc: Global,
    geometry: Geometry,
    room: Room,
    events: &[Event<'_>],
    picks: &[u64],
    out: &mut Answers,
) -> Result<Ran, CheckError>
    requires { All (λ e. session_of e < 64) events.now }
    ensures { IfErr result (λ e. (e ≡ CheckError.Fault) ⊎ (e ≡ CheckError.Memory)) }
{
    match first_life(alloc, geometry, room, events, picks, out) {
        Ok((ran, disk)) => taken_if_clean(alloc, ran, disk),
        Err(refusal) => Err(not_made(refusal)),
    }
}
