//! A snapshot keeps its bytes.
ghost use Rattle.std.specs.Prelude.{◌≡◌, ◌+◌, ◌/◌, ◌%◌, ◌≤◌, List, ℕ, IfOk, OnOk, length};
ghost use Rattle.tp_model.specs.Pool.{PlainPool};
ghost use Rattle.tp_disk.specs.Memory.{mem_state};
ghost use Rattle.tp_meta.specs.Standing.{StandsFor, geometry_of};
ghost use Rattle.tp_pool.specs.Held.{shows};
ghost use Rattle.tp_users.specs.Users.{Bears, IsKept, users_geometry};

use crate::blank::written_pool;
use crate::kept::{flush_and_leave, open_again};
use std::alloc::Global;
use tp_disk::MemDisk;
use tp_meta::Meta;
use tp_model::{DevId, Refusal};
use tp_pool::Pool;

/// Makes a snapshot of a volume, and then writes other bytes to the volume.
fn part(
    pool: &mut Pool<MemDisk, Meta>,
    origin: DevId,
    copy: DevId,
    sector: u64,
    second: &[u8],
) -> Result<(), Refusal>
    requires geometry { geometry_of pool.old.metadata ≡ users_geometry }
    requires whole { length second.now % 512 ≡ 0 }
    requires range { sector + length second.now / 512 ≤ 2048 }
    ensures shows { OnOk result ((first : List ℕ) → length second.now ≡ length first → (s : PlainPool) → Bears origin sector first s → shows geometry_of StandsFor pool.old s
        → (after : PlainPool) × Bears origin sector second.now after × Bears copy sector first after × shows geometry_of StandsFor pool.new after) }
    ensures geometry { OnOk result (geometry_of pool.new.metadata ≡ users_geometry) }
{
    pool.create_snap(copy, origin)?;
    pool.write(origin, sector, second, false)?;
    Ok(())
}

/// A pool in memory with a volume, and a snapshot of it from before other bytes were written to it.
fn parted_pool(
    alloc: Global,
    origin: DevId,
    copy: DevId,
    sector: u64,
    first: &[u8],
    second: &[u8],
) -> Result<Pool<MemDisk, Meta>, Refusal>
    requires whole { length first.now % 512 ≡ 0 }
    requires range { sector + length first.now / 512 ≤ 2048 }
    requires same { length second.now ≡ length first.now }
    ensures shows { IfOk result (λ pool. (s : PlainPool) × Bears origin sector second.now s × Bears copy sector first.now s × shows geometry_of StandsFor pool s) }
    ensures geometry { IfOk result (λ pool. geometry_of pool.metadata ≡ users_geometry) }
{
    let mut pool = written_pool(alloc, origin, sector, first)?;
    part(&mut pool, origin, copy, sector, second)?;
    Ok(pool)
}

/// Reads the same sectors of two volumes.
fn read_both(
    pool: &mut Pool<MemDisk, Meta>,
    origin: DevId,
    copy: DevId,
    sector: u64,
    of_origin: &mut [u8],
    of_copy: &mut [u8],
) -> Result<(), Refusal>
    requires geometry { geometry_of pool.old.metadata ≡ users_geometry }
    requires whole { length of_origin.old % 512 ≡ 0 }
    requires range { sector + length of_origin.old / 512 ≤ 2048 }
    requires same { length of_copy.old ≡ length of_origin.old }
    ensures read { OnOk result ((s : PlainPool) (first second : List ℕ) → shows geometry_of StandsFor pool.old s → Bears origin sector second s → Bears copy sector first s
        → length second ≡ length of_origin.old → length first ≡ length of_origin.old → (of_origin.new ≡ second) × (of_copy.new ≡ first) × shows geometry_of StandsFor pool.new s) }
    ensures geometry { geometry_of pool.new.metadata ≡ users_geometry }
    ensures origin { length of_origin.new ≡ length of_origin.old }
    ensures copy { length of_copy.new ≡ length of_copy.old }
{
    pool.read(origin, sector, of_origin)?;
    pool.read(copy, sector, of_copy)?;
    Ok(())
}

/// Reads the same sectors of two volumes, and flushes the pool: the disk that is left of it where it is stopped then, in a way of one's choice.
fn read_and_leave(
    alloc: Global,
    pool: &mut Pool<MemDisk, Meta>,
    origin: DevId,
    copy: DevId,
    sector: u64,
    of_origin: &mut [u8],
    of_copy: &mut [u8],
    picks: &[u64],
) -> Result<MemDisk, Refusal>
    requires geometry { geometry_of pool.old.metadata ≡ users_geometry }
    requires whole { length of_origin.old % 512 ≡ 0 }
    requires range { sector + length of_origin.old / 512 ≤ 2048 }
    requires same { length of_copy.old ≡ length of_origin.old }
    ensures { IfOk result (λ disk. (s : PlainPool) (first second : List ℕ) → shows geometry_of StandsFor pool.old s → Bears origin sector second s → Bears copy sector first s
        → length second ≡ length of_origin.old → length first ≡ length of_origin.old → (of_origin.new ≡ second) × (of_copy.new ≡ first) × IsKept s (mem_state disk)) }
{
    read_both(pool, origin, copy, sector, of_origin, of_copy)?;
    flush_and_leave(alloc, pool, picks)
}

/// The disk that is left of a pool in memory with a volume and a snapshot of it from before other bytes were written to it, of which both were read.
fn parted_disk(
    alloc: Global,
    origin: DevId,
    copy: DevId,
    sector: u64,
    first: &[u8],
    second: &[u8],
    picks: &[u64],
    of_origin: &mut [u8],
    of_copy: &mut [u8],
) -> Result<MemDisk, Refusal>
    requires whole { length first.now % 512 ≡ 0 }
    requires range { sector + length first.now / 512 ≤ 2048 }
    requires same { length second.now ≡ length first.now }
    requires of_origin { length of_origin.old ≡ length first.now }
    requires of_copy { length of_copy.old ≡ length first.now }
    ensures before { IfOk result (λ disk. (of_origin.new ≡ second.now) × (of_copy.new ≡ first.now)) }
    ensures kept { IfOk result (λ disk. (s : PlainPool) × Bears origin sector second.now s × Bears copy sector first.now s × IsKept s (mem_state disk)) }
{
    let mut pool = parted_pool(alloc, origin, copy, sector, first, second)?;
    read_and_leave(
        alloc, &mut pool, origin, copy, sector, of_origin, of_copy, picks,
    )
}

/// Opens a pool that was kept, and reads the same sectors of two volumes of it.
fn open_and_read(
    alloc: Global,
    disk: MemDisk,
    origin: DevId,
    copy: DevId,
    sector: u64,
    of_origin: &mut [u8],
    of_copy: &mut [u8],
) -> Result<(), Refusal>
    requires kept { (s : PlainPool) × (bytes : List ℕ) × Bears origin sector bytes s × IsKept s (mem_state disk) }
    requires whole { length of_origin.old % 512 ≡ 0 }
    requires range { sector + length of_origin.old / 512 ≤ 2048 }
    requires same { length of_copy.old ≡ length of_origin.old }
    ensures { OnOk result ((s : PlainPool) (first second : List ℕ) → IsKept s (mem_state disk) → Bears origin sector second s → Bears copy sector first s
        → length second ≡ length of_origin.old → length first ≡ length of_origin.old → (of_origin.new ≡ second) × (of_copy.new ≡ first)) }
{
    let mut pool = open_again(alloc, disk)?;
    read_both(&mut pool, origin, copy, sector, of_origin, of_copy)
}

/// A snapshot keeps the bytes that its origin had: bytes are written to a blank volume, a snapshot of it is made, and other bytes are
/// written to the volume in their place. Both are read; and read again behind a flush, any stop and an opening.
///
/// It refuses where there is no memory or no room, where the disk fails, or where both volumes are to have one id.
pub fn snapshot_keeps_its_bytes(
    alloc: Global,
    origin: DevId,
    copy: DevId,
    sector: u64,
    first: &[u8],
    second: &[u8],
    picks: &[u64],
    of_origin: &mut [u8],
    of_copy: &mut [u8],
    origin_again: &mut [u8],
    copy_again: &mut [u8],
) -> Result<(), Refusal>
    requires whole { length first.now % 512 ≡ 0 }
    requires range { sector + length first.now / 512 ≤ 2048 }
    requires same { length second.now ≡ length first.now }
    requires of_origin { length of_origin.old ≡ length first.now }
    requires of_copy { length of_copy.old ≡ length first.now }
    requires origin_again { length origin_again.old ≡ length first.now }
    requires copy_again { length copy_again.old ≡ length first.now }
    ensures before { OnOk result ((of_origin.new ≡ second.now) × (of_copy.new ≡ first.now)) }
    ensures again { OnOk result ((origin_again.new ≡ second.now) × (copy_again.new ≡ first.now)) }
{
    let disk = parted_disk(
        alloc, origin, copy, sector, first, second, picks, of_origin, of_copy,
    )?;
    open_and_read(alloc, disk, origin, copy, sector, origin_again, copy_again)
}
