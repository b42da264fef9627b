//! Lives of a hub over a pool on its disk itself, without caches.
ghost use Rattle.std.specs.Prelude.{◌≡◌, ◌<◌, All, IfErr, IfOk, IsTrue, map};
ghost use Rattle.std.specs.FinMap.{empty};
ghost use Rattle.tp_model.specs.Clauses.{IsOpened};
ghost use Rattle.tp_model.specs.Pool.{PlainPool};
ghost use Rattle.tp_model.specs.Disk.{IsSettled, seen};
ghost use Rattle.tp_disk.specs.Memory.{mem_state};
ghost use Rattle.tp_image.specs.Fresh.{empty_pool};
ghost use Rattle.tp_meta.specs.Standing.{StandsFor, changed_of, geometry_of, marks_of, room_of};
ghost use Rattle.tp_pool.specs.Flushes.{served};
ghost use Rattle.tp_pool.specs.Held.{IsSomePool};
ghost use Rattle.tp_hub.specs.Runs.{incoming, session_of, taken_of};
ghost use Rattle.tp_users.specs.Lived.{IsFirstLife, IsLived, IsNextLife};
ghost use Rattle.tp_users.specs.Lives.{AreTwoLives, IsOpenedAs};
ghost use Rattle.tp_users.specs.Users.{IsOutside};

use crate::lives::{led, left_beside};
use std::alloc::Global;
use tp_disk::MemDisk;
use tp_hub::{Answers, Event, Ran, hub_lives_are_plain};
use tp_image::fresh_image_stands_for_the_empty_pool;
use tp_meta::Meta;
use tp_model::{Geometry, Refusal};
use tp_pool::{Pool, opened_pools_go_on, stops_leave_pools};

/// A pool on a new disk in memory.
fn formatted(alloc: Global, geometry: Geometry) -> Result<Pool<MemDisk, Meta>, Refusal>
    ensures opened { IfOk result (λ pool. IsOpenedAs (served geometry_of StandsFor marks_of room_of changed_of) (empty_pool geometry) pool) }
    ensures only { IfErr result (λ reason. IsOutside reason) }
{
    fresh_image_stands_for_the_empty_pool();
    stops_leave_pools::<Meta>();
    opened_pools_go_on::<Meta>();
    let Ok(disk) = MemDisk::new(alloc, geometry.image_sectors()) else {
        return Err(Refusal::Memory);
    };
    match Pool::format(alloc, disk, geometry) {
        Ok(pool) => Ok(pool),
        Err((refusal, _)) => Err(refusal),
    }
}

/// Opens a pool from what a stop left.
fn opened(alloc: Global, disk: MemDisk) -> Result<Pool<MemDisk, Meta>, Refusal>
    ensures opened { IfOk result (λ pool. IsTrue (mem_state disk).is_honest → IsSettled (mem_state disk).cells
        → IsOpened (served geometry_of StandsFor marks_of room_of changed_of) (seen (mem_state disk).cells) pool) }
    ensures only { IsTrue (mem_state disk).is_honest → IsSomePool (seen (mem_state disk).cells) → IfErr result (λ reason. IsOutside reason) }
{
    opened_pools_go_on::<Meta>();
    match Pool::open(alloc, disk) {
        Ok(pool) => Ok(pool),
        Err((refusal, _)) => Err(refusal),
    }
}

/// A hub over a pool takes events, and is stopped in a way of one's choice: how much was taken, and the disk that is left.
fn lived(
    alloc: Global,
    pool: Pool<MemDisk, Meta>,
    events: &[Event<'_>],
    picks: &[u64],
    out: &mut Answers,
) -> Result<(Ran, MemDisk), Refusal>
    requires numbers { All (λ e. session_of e < 64) events.now }
    requires free { ((served geometry_of StandsFor marks_of room_of changed_of).outline pool).holds ≡ empty }
    ensures lived { IfOk result (λ r. IsLived (served geometry_of StandsFor marks_of room_of changed_of) pool
        (taken_of (map incoming events.now) r.0.events r.0.bytes) out.old out.new (seen (mem_state r.1).cells)) }
    ensures honest { IfOk result (λ r. IsTrue (mem_state r.1).is_honest) }
    ensures settled { IfOk result (λ r. IsSettled (mem_state r.1).cells) }
    ensures only { IfErr result (λ reason. IsOutside reason) }
{
    let (pool, ran) = led(alloc, pool, events, out);
    left_beside(alloc, ran, pool.disk(), picks)
}

/// The first life: the pool is on a new disk in memory.
fn first_life(
    alloc: Global,
    geometry: Geometry,
    events: &[Event<'_>],
    picks: &[u64],
    out: &mut Answers,
) -> Result<(Ran, MemDisk), Refusal>
    requires { All (λ e. session_of e < 64) events.now }
    ensures lived { IfOk result (λ r. IsFirstLife (served geometry_of StandsFor marks_of room_of changed_of) (empty_pool geometry)
        (taken_of (map incoming events.now) r.0.events r.0.bytes) out.old out.new (seen (mem_state r.1).cells)) }
    ensures honest { IfOk result (λ r. IsTrue (mem_state r.1).is_honest) }
    ensures settled { IfOk result (λ r. IsSettled (mem_state r.1).cells) }
    ensures only { IfErr result (λ reason. IsOutside reason) }
{
    let pool = formatted(alloc, geometry)?;
    lived(alloc, pool, events, picks, out)
}

/// A later life: the pool is opened from what a stop left.
fn next_life(
    alloc: Global,
    disk: MemDisk,
    events: &[Event<'_>],
    picks: &[u64],
    out: &mut Answers,
) -> Result<(Ran, MemDisk), Refusal>
    requires numbers { All (λ e. session_of e < 64) events.now }
    requires honest { IsTrue (mem_state disk).is_honest }
    requires settled { IsSettled (mem_state disk).cells }
    requires found { (s : PlainPool) × (served geometry_of StandsFor marks_of room_of changed_of).stands_for (seen (mem_state disk).cells) s }
    ensures lived { IfOk result (λ r. IsNextLife (served geometry_of StandsFor marks_of room_of changed_of) (seen (mem_state disk).cells)
        (taken_of (map incoming events.now) r.0.events r.0.bytes) out.old out.new (seen (mem_state r.1).cells)) }
    ensures only { IfErr result (λ reason. IsOutside reason) }
{
    let pool = opened(alloc, disk)?;
    lived(alloc, pool, events, picks, out)
}

/// What `hub_lives_twice` says of a hub on caches, of one over the pool on the disk itself: it takes events, and is stopped in a way of one's choice; then one
/// that is opened from what that left takes events, and is stopped too. Both lives are lives of the plain hub.
///
/// It refuses where there is no memory, or where the disk fails.
pub fn hub_on_its_disk_lives_twice(
    alloc: Global,
    geometry: Geometry,
    first: &[Event<'_>],
    picks: &[u64],
    second: &[Event<'_>],
    last_picks: &[u64],
    told: &mut Answers,
    told_again: &mut Answers,
) -> Result<(Ran, Ran, MemDisk), Refusal>
    requires first { All (λ e. session_of e < 64) first.now }
    requires second { All (λ e. session_of e < 64) second.now }
    ensures lives { IfOk result (λ r. AreTwoLives (served geometry_of StandsFor marks_of room_of changed_of) (empty_pool geometry)
        (taken_of (map incoming first.now) r.0.events r.0.bytes) (taken_of (map incoming second.now) r.1.events r.1.bytes)
        told.old told.new told_again.old told_again.new (seen (mem_state r.2).cells)) }
    ensures only { IfErr result (λ reason. IsOutside reason) }
{
    hub_lives_are_plain::<Pool<MemDisk, Meta>>();
    let (one, disk) = first_life(alloc, geometry, first, picks, told)?;
    let (two, disk) = next_life(alloc, disk, second, last_picks, told_again)?;
    Ok((one, two, disk))
}
