//! What a trim covers becomes zero, and what it does not cover stays.
ghost use Rattle.std.specs.Prelude.{◌≡◌, ◌+◌, ◌/◌, ◌%◌, ◌<◌, ◌≤◌, OnOk, ℕ, false, length, replicate, true};
ghost use Rattle.tp_model.specs.Geometry.{sectors_of_volume};
ghost use Rattle.tp_model.specs.Pool.{PlainPool};
ghost use Rattle.tp_model.specs.Calls.{covers};
ghost use Rattle.tp_model.specs.Sectors.{sectors_of, zero_sector};
ghost use Rattle.tp_pool.specs.AtMetadata.{shows};

use tp_disk::Disk;
use tp_meta::Metadata;
use tp_model::{DevId, Refusal};
use tp_pool::Pool;

/// Reads sectors of a volume, trims a range of it, and reads the same sectors again: where none of them lies in a block that is wholly in
/// the range, both readings gave the same.
///
/// It refuses where one of the three is refused.
pub fn trim_spares_parts_of_blocks<D: Disk, M: Metadata>(
    pool: &mut Pool<D, M>,
    id: DevId,
    sector: u64,
    count: u64,
    part: u64,
    before: &mut [u8],
    after: &mut [u8],
) -> Result<(), Refusal>
    requires range { sector + count ≤ sectors_of_volume (M.geometry pool.old.metadata) }
    requires most { count ≤ 2048 }
    requires whole { length before.old % 512 ≡ 0 }
    requires inside { part + length before.old / 512 ≤ sectors_of_volume (M.geometry pool.old.metadata) }
    requires again { length after.old ≡ length before.old }
    ensures { OnOk result ((s : PlainPool) → shows M.Metadata pool.old s
        → ((k : ℕ) → part ≤ k → k < part + length before.old / 512 → covers s.geometry sector count (k / s.geometry.block_sectors) ≡ false)
        → after.new ≡ before.new) }
{
    pool.read(id, part, before)?;
    pool.trim(id, sector, count, false)?;
    pool.read(id, part, after)?;
    Ok(())
}

/// Trims a range of sectors of a volume, and reads sectors of it: where each of them lies in a block that is wholly in the range, they are
/// zero.
///
/// It refuses where one of the two is refused.
pub fn trimmed_blocks_read_zero<D: Disk, M: Metadata>(
    pool: &mut Pool<D, M>,
    id: DevId,
    sector: u64,
    count: u64,
    fua: bool,
    part: u64,
    out: &mut [u8],
) -> Result<(), Refusal>
    requires range { sector + count ≤ sectors_of_volume (M.geometry pool.old.metadata) }
    requires most { count ≤ 2048 }
    requires whole { length out.old % 512 ≡ 0 }
    requires inside { part + length out.old / 512 ≤ sectors_of_volume (M.geometry pool.old.metadata) }
    ensures { OnOk result ((s : PlainPool) → shows M.Metadata pool.old s
        → ((k : ℕ) → part ≤ k → k < part + length out.old / 512 → covers s.geometry sector count (k / s.geometry.block_sectors) ≡ true)
        → sectors_of out.new ≡ replicate (length out.new / 512) zero_sector) }
{
    pool.trim(id, sector, count, fua)?;
    pool.read(id, part, out)?;
    Ok(())
}
