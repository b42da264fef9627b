//! A volume that grew.
ghost use Rattle.std.specs.Prelude.{ℕ, ◌≡◌, ◌+◌, ◌*◌, ◌/◌, ◌%◌, ◌^◌, ◌≤◌, IfErr, IfOk, OnOk, length, replicate};
ghost use Rattle.tp_model.specs.Pool.{PlainPool};
ghost use Rattle.tp_model.specs.Sectors.{sectors_of, zero_sector};
ghost use Rattle.tp_disk.specs.Memory.{mem_state};
ghost use Rattle.tp_meta.specs.Standing.{StandsFor, geometry_of};
ghost use Rattle.tp_pool.specs.Held.{shows};
ghost use Rattle.tp_users.specs.Users.{IsBlank, IsGrown, IsKept, IsLeftAs, IsOutside, users_geometry};

use crate::blank::blank_pool;
use crate::kept::open_again;
use std::alloc::Global;
use tp_disk::{MemDisk, picks_are_stops};
use tp_meta::Meta;
use tp_model::{DevId, Refusal};
use tp_pool::{Pool, room_lasts_to_the_bound};

/// Writes bytes to the volume of a blank pool, and lets it grow.
fn fill_and_grow(
    pool: &mut Pool<MemDisk, Meta>,
    id: DevId,
    sector: u64,
    bytes: &[u8],
    blocks: u32,
) -> Result<(), Refusal>
    requires shows { (s : PlainPool) × IsBlank id s × shows geometry_of StandsFor pool.old s }
    requires geometry { geometry_of pool.old.metadata ≡ users_geometry }
    requires whole { length bytes.now % 512 ≡ 0 }
    requires range { sector + length bytes.now / 512 ≤ 2048 }
    requires least { 16 ≤ blocks }
    requires most { blocks ≤ 2 ^ 24 }
    ensures shows { OnOk result ((s : PlainPool) × IsGrown id blocks s × IsLeftAs s pool.new.disk × shows geometry_of StandsFor pool.new s) }
    ensures only { IfErr result (λ reason. IsOutside reason) }
{
    room_lasts_to_the_bound::<Meta>();
    pool.write(id, sector, bytes, false)?;
    pool.grow(id, blocks as u64)?;
    Ok(())
}

/// A pool in memory, to whose volume bytes were written from a sector on before it grew.
fn grown_pool(
    alloc: Global,
    id: DevId,
    sector: u64,
    bytes: &[u8],
    blocks: u32,
) -> Result<Pool<MemDisk, Meta>, Refusal>
    requires whole { length bytes.now % 512 ≡ 0 }
    requires range { sector + length bytes.now / 512 ≤ 2048 }
    requires least { 16 ≤ blocks }
    requires most { blocks ≤ 2 ^ 24 }
    ensures shows { IfOk result (λ pool. (s : PlainPool) × IsGrown id blocks s × IsLeftAs s pool.disk × shows geometry_of StandsFor pool s) }
    ensures only { IfErr result (λ reason. IsOutside reason) }
{
    let mut pool = blank_pool(alloc, id)?;
    fill_and_grow(&mut pool, id, sector, bytes, blocks)?;
    Ok(pool)
}

/// The disk that is left of a pool where it is stopped in a way of one's choice.
fn stop(alloc: Global, pool: &Pool<MemDisk, Meta>, picks: &[u64]) -> Result<MemDisk, Refusal>
    ensures kept { IfOk result (λ disk. (s : PlainPool) → IsLeftAs s pool.now.disk → IsKept s (mem_state disk)) }
    ensures only { IfErr result (λ reason. IsOutside reason) }
{
    picks_are_stops();
    match pool.disk().stop(alloc, picks) {
        Ok(disk) => Ok(disk),
        Err(_) => Err(Refusal::Memory),
    }
}

/// Reads sectors behind the old end of a volume that grew: the disk that is left of the pool where it is stopped then, in a way of one's choice.
fn read_and_leave(
    alloc: Global,
    pool: &mut Pool<MemDisk, Meta>,
    id: DevId,
    from: u64,
    out: &mut [u8],
    picks: &[u64],
) -> Result<MemDisk, Refusal>
    requires grown { (s : PlainPool) × (blocks : ℕ) × IsGrown id blocks s × shows geometry_of StandsFor pool.old s × (from + length out.old / 512 ≤ blocks * 128) × (blocks ≤ 2 ^ 24) }
    requires behind { 2048 ≤ from }
    requires whole { length out.old % 512 ≡ 0 }
    ensures zero { IfOk result (λ disk. sectors_of out.new ≡ replicate (length out.new / 512) zero_sector) }
    ensures kept { IfOk result (λ disk. (s : PlainPool) → IsLeftAs s pool.old.disk → IsKept s (mem_state disk)) }
    ensures only { IfErr result (λ reason. IsOutside reason) }
{
    pool.read(id, from, out)?;
    stop(alloc, pool, picks)
}

/// The disk that is left of a pool in memory whose volume grew, of which sectors behind its old end were read.
fn grown_disk(
    alloc: Global,
    id: DevId,
    sector: u64,
    bytes: &[u8],
    blocks: u32,
    picks: &[u64],
    from: u64,
    out: &mut [u8],
) -> Result<MemDisk, Refusal>
    requires whole { length bytes.now % 512 ≡ 0 }
    requires range { sector + length bytes.now / 512 ≤ 2048 }
    requires least { 16 ≤ blocks }
    requires most { blocks ≤ 2 ^ 24 }
    requires behind { 2048 ≤ from }
    requires inside { from + length out.old / 512 ≤ blocks * 128 }
    requires sectors { length out.old % 512 ≡ 0 }
    ensures zero { IfOk result (λ disk. sectors_of out.new ≡ replicate (length out.new / 512) zero_sector) }
    ensures kept { IfOk result (λ disk. (s : PlainPool) × IsGrown id blocks s × IsKept s (mem_state disk)) }
    ensures only { IfErr result (λ reason. IsOutside reason) }
{
    let mut pool = grown_pool(alloc, id, sector, bytes, blocks)?;
    read_and_leave(alloc, &mut pool, id, from, out, picks)
}

/// Opens a pool that was kept, and reads sectors behind the old end of its volume that grew.
fn open_and_read(
    alloc: Global,
    disk: MemDisk,
    id: DevId,
    from: u64,
    out: &mut [u8],
) -> Result<(), Refusal>
    requires kept { (s : PlainPool) × (blocks : ℕ) × IsGrown id blocks s × IsKept s (mem_state disk) × (from + length out.old / 512 ≤ blocks * 128) × (blocks ≤ 2 ^ 24) }
    requires behind { 2048 ≤ from }
    requires whole { length out.old % 512 ≡ 0 }
    ensures zero { OnOk result (sectors_of out.new ≡ replicate (length out.new / 512) zero_sector) }
    ensures only { IfErr result (λ reason. IsOutside reason) }
{
    let mut pool = open_again(alloc, disk)?;
    pool.read(id, from, out)
}

/// Behind the old end of a volume that grew all is zero: bytes are written to a blank pool's volume, it grows, and sectors behind its old end are
/// read; the pool is stopped in a way of one's choice and opened again, and they are read once more.
///
/// It refuses where there is no memory, for the disk, for a write to it (a fault) or for the pool.
pub fn grown_blocks_read_zero(
    alloc: Global,
    id: DevId,
    sector: u64,
    bytes: &[u8],
    blocks: u32,
    picks: &[u64],
    from: u64,
    out: &mut [u8],
    again: &mut [u8],
) -> Result<(), Refusal>
    requires whole { length bytes.now % 512 ≡ 0 }
    requires range { sector + length bytes.now / 512 ≤ 2048 }
    requires least { 16 ≤ blocks }
    requires most { blocks ≤ 2 ^ 24 }
    requires behind { 2048 ≤ from }
    requires inside { from + length out.old / 512 ≤ blocks * 128 }
    requires sectors { length out.old % 512 ≡ 0 }
    requires same { length again.old ≡ length out.old }
    ensures zero { OnOk result (sectors_of out.new ≡ replicate (length out.new / 512) zero_sector) }
    ensures again { OnOk result (sectors_of again.new ≡ replicate (length again.new / 512) zero_sector) }
    ensures only { IfErr result (λ reason. IsOutside reason) }
{
    let disk = grown_disk(alloc, id, sector, bytes, blocks, picks, from, out)?;
    open_and_read(alloc, disk, id, from, again)
}
