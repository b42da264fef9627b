//! A pool that ran out of metadata room is used again.
ghost use Rattle.std.specs.Prelude.{◌≡◌, Err, IfErr, IfOk, IsTrue, true};
ghost use Rattle.std.specs.Option.{IfSome};
ghost use Rattle.tp_model.specs.Pool.{PlainPool};
ghost use Rattle.tp_model.specs.Calls.{Delete, Makes, exists, is_read_only};
ghost use Rattle.tp_model.specs.declared.mode.Mode.TheVariants as mode;
ghost use Rattle.tp_disk.specs.Memory.{mem_state};
ghost use Rattle.tp_meta.specs.Standing.{StandsFor, geometry_of};
ghost use Rattle.tp_pool.specs.Held.{shows};
ghost use Rattle.tp_users.specs.Users.{IsKept, IsOutside, recovered, short};

use crate::kept::open_again;
use std::alloc::Global;
use tp_disk::{MemDisk, picks_are_stops};
use tp_meta::Meta;
use tp_model::{DevId, Mode, Refusal};
use tp_pool::Pool;

fn lacks_metadata(answer: &Result<(), Refusal>) -> bool
    ensures { IsTrue result → answer.now ≡ Err Refusal.NoMetadataSpace }
{
    matches!(answer, Err(Refusal::NoMetadataSpace))
}

fn is_read_only(found: Mode) -> bool
    ensures { result ≡ is_read_only found }
{
    match found {
        Mode::ReadOnly => true,
        Mode::Writable | Mode::Failed => false,
    }
}

/// Asks a pool for a volume: the disk that is left of it where the volume was refused for want of metadata room, and it is stopped then, in a way of
/// one's choice.
fn leave_short_pool(
    alloc: Global,
    pool: &mut Pool<MemDisk, Meta>,
    created: DevId,
    picks: &[u64],
) -> Result<Option<MemDisk>, Refusal>
    ensures { IfOk result (λ left. IfSome left (λ disk. (s : PlainPool) → shows geometry_of StandsFor pool.old s → IsKept (short s) (mem_state disk))) }
{
    let answer = pool.create_thin(created);
    if !lacks_metadata(&answer) {
        return Ok(None);
    }
    picks_are_stops();
    match pool.disk().stop(alloc, picks) {
        Ok(disk) => Ok(Some(disk)),
        Err(_) => Err(Refusal::Memory),
    }
}

/// Asks a pool for a volume, and stops it in a way of one's choice: the disk that is left, where the volume was refused for want of metadata
/// room. It holds what was kept then: the same pool, which wants a check.
pub fn stop_short_pool(
    alloc: Global,
    pool: Pool<MemDisk, Meta>,
    created: DevId,
    picks: &[u64],
) -> Result<Option<MemDisk>, Refusal>
    ensures { IfOk result (λ left. IfSome left (λ disk. (s : PlainPool) → shows geometry_of StandsFor pool s → IsKept (short s) (mem_state disk))) }
{
    let mut pool = pool;
    leave_short_pool(alloc, &mut pool, created, picks)
}

/// Takes the disk out of a pool, which is to be read-only.
fn taken_back(pool: Pool<MemDisk, Meta>) -> Result<MemDisk, Refusal>
    ensures same { IfOk result (λ disk. mem_state disk ≡ pool.disk) }
    ensures only { pool.mode ≡ mode.ReadOnly → IfErr result (λ reason. ⊥) }
{
    if !is_read_only(pool.mode()) {
        return Err(Refusal::Damaged);
    }
    let (disk, _besides) = pool.take_apart();
    Ok(disk)
}

/// Opens a pool, which is to be read-only since it wants a check, and lets the disk go as it was.
fn found_read_only(alloc: Global, disk: MemDisk) -> Result<MemDisk, Refusal>
    ensures same { IfOk result (λ back. mem_state back ≡ mem_state disk) }
    ensures only { (s : PlainPool) → IsKept (short s) (mem_state disk) → IfErr result (λ reason. IsOutside reason) }
{
    match Pool::open(alloc, disk) {
        Ok(pool) => taken_back(pool),
        Err((refusal, _)) => Err(refusal),
    }
}

/// Opens a pool that wants no check to be read only, and lets the disk go as it was.
fn looked_at(alloc: Global, disk: MemDisk) -> Result<MemDisk, Refusal>
    ensures same { IfOk result (λ back. mem_state back ≡ mem_state disk) }
    ensures only { (s : PlainPool) → IsKept (recovered s) (mem_state disk) → IfErr result (λ reason. IsOutside reason) }
{
    match Pool::open_read_only(alloc, disk) {
        Ok(pool) => taken_back(pool),
        Err((refusal, _)) => Err(refusal),
    }
}

/// Clears the flag of a pool that wants a check.
fn cleared(alloc: Global, disk: MemDisk) -> Result<MemDisk, Refusal>
    ensures kept { IfOk result (λ after. (s : PlainPool) → IsKept (short s) (mem_state disk) → IsKept (recovered s) (mem_state after)) }
    ensures only { (s : PlainPool) → IsKept (short s) (mem_state disk) → IfErr result (λ reason. IsOutside reason) }
{
    let mut disk = disk;
    Pool::<MemDisk, Meta>::clear_needs_check(alloc, &mut disk)?;
    Ok(disk)
}

/// Opens what a stop left of a pool that was refused for want of metadata room, and finds it read-only; clears its flag, opens it to be
/// read only and then to be used, and removes a volume.
///
/// Of a pool that has the volume and holds no metadata root it refuses only where there is no memory, or where the disk fails.
pub fn short_pool_is_used_again(
    alloc: Global,
    disk: MemDisk,
    removed: DevId,
) -> Result<Pool<MemDisk, Meta>, Refusal>
    ensures removed { IfOk result (λ pool. (s : PlainPool) → IsKept (short s) (mem_state disk)
        → (after : PlainPool) × Makes (recovered s) (Delete removed) after × shows geometry_of StandsFor pool after) }
    ensures only { (s : PlainPool) → IsKept (short s) (mem_state disk) → s.held_root ≡ 0 → exists s removed ≡ true → IfErr result (λ reason. IsOutside reason) }
{
    let disk = found_read_only(alloc, disk)?;
    let disk = cleared(alloc, disk)?;
    let disk = looked_at(alloc, disk)?;
    let mut pool = open_again(alloc, disk)?;
    pool.delete(removed)?;
    Ok(pool)
}
