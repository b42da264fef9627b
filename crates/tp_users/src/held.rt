//! A mapping that is held keeps its bytes, and gives its blocks back.
ghost use Rattle.std.specs.Prelude.{◌≡◌, ◌+◌, ◌/◌, ◌%◌, ◌<◌, ◌≤◌, List, ℕ, IfOk, OnOk, length};
ghost use Rattle.tp_model.specs.Pool.{PlainPool, used};
ghost use Rattle.tp_model.specs.Calls.{Makes, ReleaseMetadataSnap};
ghost use Rattle.tp_disk.specs.Memory.{mem_state};
ghost use Rattle.tp_meta.specs.Standing.{StandsFor, geometry_of};
ghost use Rattle.tp_pool.specs.Held.{shows};
ghost use Rattle.tp_users.specs.Users.{Bears, BearsCopy, Frees, IsBlank, IsKept, blocks_touched, users_geometry};

use crate::blank::blank_pool;
use crate::kept::{flush_and_leave, open_again};
use std::alloc::Global;
use tp_disk::MemDisk;
use tp_meta::Meta;
use tp_model::{DevId, Refusal};
use tp_pool::Pool;

/// Writes bytes to a volume, reserves the mapping, and writes other bytes in their place.
fn hold_between(
    pool: &mut Pool<MemDisk, Meta>,
    id: DevId,
    sector: u64,
    first: &[u8],
    second: &[u8],
) -> Result<(), Refusal>
    requires geometry { geometry_of pool.old.metadata ≡ users_geometry }
    requires whole { length first.now % 512 ≡ 0 }
    requires range { sector + length first.now / 512 ≤ 2048 }
    requires same { length second.now ≡ length first.now }
    ensures shows { OnOk result ((s : PlainPool) → IsBlank id s → shows geometry_of StandsFor pool.old s
        → (after : PlainPool) × Bears id sector second.now after × BearsCopy id sector first.now after × Frees id sector (length first.now / 512) after
        × shows geometry_of StandsFor pool.new after) }
    ensures geometry { OnOk result (geometry_of pool.new.metadata ≡ users_geometry) }
{
    pool.write(id, sector, first, false)?;
    pool.reserve_metadata_snap()?;
    pool.write(id, sector, second, false)?;
    Ok(())
}

/// A pool in memory that holds its mapping, with a volume to which other bytes were written since.
fn held_pool(
    alloc: Global,
    id: DevId,
    sector: u64,
    first: &[u8],
    second: &[u8],
) -> Result<Pool<MemDisk, Meta>, Refusal>
    requires whole { length first.now % 512 ≡ 0 }
    requires range { sector + length first.now / 512 ≤ 2048 }
    requires same { length second.now ≡ length first.now }
    ensures shows { IfOk result (λ pool. (s : PlainPool) × Bears id sector second.now s × BearsCopy id sector first.now s × Frees id sector (length first.now / 512) s
        × shows geometry_of StandsFor pool s) }
    ensures geometry { IfOk result (λ pool. geometry_of pool.metadata ≡ users_geometry) }
{
    let mut pool = blank_pool(alloc, id)?;
    hold_between(&mut pool, id, sector, first, second)?;
    Ok(pool)
}

/// Reads the same sectors of a volume and of its held copy.
fn read_with_copy(
    pool: &mut Pool<MemDisk, Meta>,
    id: DevId,
    sector: u64,
    of_volume: &mut [u8],
    of_copy: &mut [u8],
) -> Result<(), Refusal>
    requires geometry { geometry_of pool.old.metadata ≡ users_geometry }
    requires whole { length of_volume.old % 512 ≡ 0 }
    requires range { sector + length of_volume.old / 512 ≤ 2048 }
    requires same { length of_copy.old ≡ length of_volume.old }
    ensures read { OnOk result ((s : PlainPool) (first second : List ℕ) → shows geometry_of StandsFor pool.old s → Bears id sector second s → BearsCopy id sector first s
        → length second ≡ length of_volume.old → length first ≡ length of_volume.old → (of_volume.new ≡ second) × (of_copy.new ≡ first) × shows geometry_of StandsFor pool.new s) }
    ensures geometry { geometry_of pool.new.metadata ≡ users_geometry }
    ensures volume { length of_volume.new ≡ length of_volume.old }
    ensures copy { length of_copy.new ≡ length of_copy.old }
{
    pool.read(id, sector, of_volume)?;
    pool.held_read(id, sector, of_copy)?;
    Ok(())
}

/// Reads the same sectors of a volume and of its held copy, and flushes the pool: the disk that is left of it where it is stopped then, in a way of
/// one's choice.
fn read_and_leave(
    alloc: Global,
    pool: &mut Pool<MemDisk, Meta>,
    id: DevId,
    sector: u64,
    of_volume: &mut [u8],
    of_copy: &mut [u8],
    picks: &[u64],
) -> Result<MemDisk, Refusal>
    requires geometry { geometry_of pool.old.metadata ≡ users_geometry }
    requires whole { length of_volume.old % 512 ≡ 0 }
    requires range { sector + length of_volume.old / 512 ≤ 2048 }
    requires same { length of_copy.old ≡ length of_volume.old }
    ensures { IfOk result (λ disk. (s : PlainPool) (first second : List ℕ) → shows geometry_of StandsFor pool.old s → Bears id sector second s → BearsCopy id sector first s
        → length second ≡ length of_volume.old → length first ≡ length of_volume.old → (of_volume.new ≡ second) × (of_copy.new ≡ first) × IsKept s (mem_state disk)) }
{
    read_with_copy(pool, id, sector, of_volume, of_copy)?;
    flush_and_leave(alloc, pool, picks)
}

/// The disk that is left of a pool in memory that holds its mapping, with a volume to which other bytes were written since, of which both were read.
fn held_disk(
    alloc: Global,
    id: DevId,
    sector: u64,
    first: &[u8],
    second: &[u8],
    picks: &[u64],
    of_volume: &mut [u8],
    of_copy: &mut [u8],
) -> Result<MemDisk, Refusal>
    requires whole { length first.now % 512 ≡ 0 }
    requires range { sector + length first.now / 512 ≤ 2048 }
    requires same { length second.now ≡ length first.now }
    requires of_volume { length of_volume.old ≡ length first.now }
    requires of_copy { length of_copy.old ≡ length first.now }
    ensures before { IfOk result (λ disk. (of_volume.new ≡ second.now) × (of_copy.new ≡ first.now)) }
    ensures kept { IfOk result (λ disk. (s : PlainPool) × Bears id sector second.now s × BearsCopy id sector first.now s × IsKept s (mem_state disk)) }
{
    let mut pool = held_pool(alloc, id, sector, first, second)?;
    read_and_leave(alloc, &mut pool, id, sector, of_volume, of_copy, picks)
}

/// Opens a pool that was kept, and reads the same sectors of a volume of it and of its held copy.
fn open_and_read(
    alloc: Global,
    disk: MemDisk,
    id: DevId,
    sector: u64,
    of_volume: &mut [u8],
    of_copy: &mut [u8],
) -> Result<(), Refusal>
    requires kept { (s : PlainPool) × (bytes : List ℕ) × Bears id sector bytes s × IsKept s (mem_state disk) }
    requires whole { length of_volume.old % 512 ≡ 0 }
    requires range { sector + length of_volume.old / 512 ≤ 2048 }
    requires same { length of_copy.old ≡ length of_volume.old }
    ensures { OnOk result ((s : PlainPool) (first second : List ℕ) → IsKept s (mem_state disk) → Bears id sector second s → BearsCopy id sector first s
        → length second ≡ length of_volume.old → length first ≡ length of_volume.old → (of_volume.new ≡ second) × (of_copy.new ≡ first)) }
{
    let mut pool = open_again(alloc, disk)?;
    read_with_copy(&mut pool, id, sector, of_volume, of_copy)
}

/// A mapping that is held keeps the bytes of its volumes: bytes are written to a blank volume, the mapping is reserved, and other bytes are written to
/// the volume in their place. Both are read; and read again behind a flush, any stop and an opening.
///
/// It refuses where there is no memory or no room, or where the disk fails.
pub fn held_mapping_keeps_its_bytes(
    alloc: Global,
    id: DevId,
    sector: u64,
    first: &[u8],
    second: &[u8],
    picks: &[u64],
    of_volume: &mut [u8],
    of_copy: &mut [u8],
    volume_again: &mut [u8],
    copy_again: &mut [u8],
) -> Result<(), Refusal>
    requires whole { length first.now % 512 ≡ 0 }
    requires range { sector + length first.now / 512 ≤ 2048 }
    requires same { length second.now ≡ length first.now }
    requires of_volume { length of_volume.old ≡ length first.now }
    requires of_copy { length of_copy.old ≡ length first.now }
    requires volume_again { length volume_again.old ≡ length first.now }
    requires copy_again { length copy_again.old ≡ length first.now }
    ensures before { OnOk result ((of_volume.new ≡ second.now) × (of_copy.new ≡ first.now)) }
    ensures again { OnOk result ((volume_again.new ≡ second.now) × (copy_again.new ≡ first.now)) }
{
    let disk = held_disk(alloc, id, sector, first, second, picks, of_volume, of_copy)?;
    open_and_read(alloc, disk, id, sector, volume_again, copy_again)
}

/// The blocks that the held copy of a volume has for itself are free behind its release: bytes are written to a blank volume, the mapping is reserved,
/// other bytes are written to the volume in their place, and the mapping is released. Each block to which bytes were written gives back a data block.
///
/// It refuses where there is no memory or no room, or where the disk fails.
pub fn released_blocks_are_free(
    alloc: Global,
    id: DevId,
    sector: u64,
    first: &[u8],
    second: &[u8],
) -> Result<Pool<MemDisk, Meta>, Refusal>
    requires whole { length first.now % 512 ≡ 0 }
    requires range { sector + length first.now / 512 ≤ 2048 }
    requires same { length second.now ≡ length first.now }
    ensures { IfOk result (λ pool. (held : PlainPool) × (after : PlainPool) × Bears id sector second.now held × BearsCopy id sector first.now held
        × Makes held ReleaseMetadataSnap after × (used after + blocks_touched held id sector (length first.now / 512) ≤ used held)
        × (0 < length first.now → used after < used held) × shows geometry_of StandsFor pool after) }
{
    let mut pool = held_pool(alloc, id, sector, first, second)?;
    pool.release_metadata_snap()?;
    Ok(pool)
}
