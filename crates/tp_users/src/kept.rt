//! What was kept is read again.
ghost use Rattle.std.specs.Prelude.{◌≡◌, ◌+◌, ◌/◌, ◌%◌, ◌≤◌, IfErr, IfOk, OnOk, length};
ghost use Rattle.tp_model.specs.Pool.{PlainPool};
ghost use Rattle.tp_model.specs.PoolStops.{reopened};
ghost use Rattle.tp_disk.specs.Memory.{mem_state};
ghost use Rattle.tp_meta.specs.Standing.{StandsFor, geometry_of};
ghost use Rattle.tp_pool.specs.Held.{shows};
ghost use Rattle.tp_model.specs.declared.mode.Mode.TheVariants as mode;
ghost use Rattle.tp_users.specs.Users.{IsKept, IsOutside, users_geometry};

use crate::blank::written_pool;
use std::alloc::Global;
use tp_disk::{MemDisk, picks_are_stops};
use tp_meta::Meta;
use tp_model::{DevId, Refusal};
use tp_pool::Pool;

/// Flushes a pool: the disk that is left of it where it is stopped then, in a way of one's choice.
pub(crate) fn flush_and_leave(
    alloc: Global,
    pool: &mut Pool<MemDisk, Meta>,
    picks: &[u64],
) -> Result<MemDisk, Refusal>
    ensures kept { IfOk result (λ disk. (s : PlainPool) → shows geometry_of StandsFor pool.old s → IsKept s (mem_state disk)) }
    ensures only { (s : PlainPool) → shows geometry_of StandsFor pool.old s → s.mode ≡ mode.Writable → IfErr result (λ reason. IsOutside reason) }
{
    pool.flush()?;
    picks_are_stops();
    match pool.disk().stop(alloc, picks) {
        Ok(disk) => Ok(disk),
        Err(_) => Err(Refusal::Memory),
    }
}

/// Flushes a pool, and stops it in a way of one's choice.
fn flush_and_stop(
    alloc: Global,
    pool: Pool<MemDisk, Meta>,
    picks: &[u64],
) -> Result<MemDisk, Refusal>
    ensures kept { IfOk result (λ disk. (s : PlainPool) → shows geometry_of StandsFor pool s → IsKept s (mem_state disk)) }
    ensures only { (s : PlainPool) → shows geometry_of StandsFor pool s → s.mode ≡ mode.Writable → IfErr result (λ reason. IsOutside reason) }
{
    let mut pool = pool;
    flush_and_leave(alloc, &mut pool, picks)
}

/// Closes a pool.
fn close(pool: Pool<MemDisk, Meta>) -> Result<MemDisk, Refusal>
    ensures kept { IfOk result (λ disk. (s : PlainPool) → shows geometry_of StandsFor pool s → s.mode ≡ mode.Writable → IsKept s (mem_state disk)) }
    ensures only { (s : PlainPool) → shows geometry_of StandsFor pool s → s.mode ≡ mode.Writable → IfErr result (λ reason. IsOutside reason) }
{
    match pool.close() {
        (Ok(()), disk) => Ok(disk),
        (Err(refusal), _) => Err(refusal),
    }
}

/// Opens a pool that was kept.
pub(crate) fn open_again(alloc: Global, disk: MemDisk) -> Result<Pool<MemDisk, Meta>, Refusal>
    ensures shows { IfOk result (λ pool. (s : PlainPool) → IsKept s (mem_state disk) → shows geometry_of StandsFor pool (reopened s)) }
    ensures only { (s : PlainPool) → IsKept s (mem_state disk) → IfErr result (λ reason. IsOutside reason) }
{
    match Pool::open(alloc, disk) {
        Ok(pool) => Ok(pool),
        Err((refusal, _)) => Err(refusal),
    }
}

/// What was written and flushed is read after any stop: bytes are written to a blank pool, which is flushed,
/// stopped, and opened again; then they are read.
///
/// It refuses where there is no memory, for the disk, for a write to it (a fault) or for the pool.
pub fn flushed_bytes_are_read(
    alloc: Global,
    id: DevId,
    sector: u64,
    bytes: &[u8],
    picks: &[u64],
    out: &mut [u8],
) -> Result<(), Refusal>
    requires whole { length bytes.now % 512 ≡ 0 }
    requires range { sector + length bytes.now / 512 ≤ 2048 }
    requires same { length out.old ≡ length bytes.now }
    ensures read { OnOk result (out.new ≡ bytes.now) }
    ensures only { IfErr result (λ reason. IsOutside reason) }
{
    let pool = written_pool(alloc, id, sector, bytes)?;
    let disk = flush_and_stop(alloc, pool, picks)?;
    let mut pool = open_again(alloc, disk)?;
    pool.read(id, sector, out)
}

/// What was written before a pool was closed is read where it is opened again from the disk that it handed back.
///
/// It refuses as `flushed_bytes_are_read` does.
pub fn closed_bytes_are_read(
    alloc: Global,
    id: DevId,
    sector: u64,
    bytes: &[u8],
    out: &mut [u8],
) -> Result<(), Refusal>
    requires whole { length bytes.now % 512 ≡ 0 }
    requires range { sector + length bytes.now / 512 ≤ 2048 }
    requires same { length out.old ≡ length bytes.now }
    ensures read { OnOk result (out.new ≡ bytes.now) }
    ensures only { IfErr result (λ reason. IsOutside reason) }
{
    let pool = written_pool(alloc, id, sector, bytes)?;
    let disk = close(pool)?;
    let mut pool = open_again(alloc, disk)?;
    pool.read(id, sector, out)
}
