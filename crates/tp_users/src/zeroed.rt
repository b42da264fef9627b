//! Zeros that were written are read.
ghost use Rattle.std.specs.Prelude.{◌≡◌, ◌+◌, ◌/◌, ◌%◌, ◌≤◌, OnOk, length, replicate};
ghost use Rattle.tp_model.specs.Geometry.{sectors_of_volume};
ghost use Rattle.tp_model.specs.Pool.{PlainPool};
ghost use Rattle.tp_model.specs.Sectors.{sectors_of, zero_sector};
ghost use Rattle.tp_pool.specs.AtMetadata.{shows};

use tp_disk::Disk;
use tp_meta::Metadata;
use tp_model::{DevId, Refusal};
use tp_pool::Pool;

/// Writes zeros to sectors of a volume, with holes or without, and reads these sectors: they are zero.
///
/// It refuses where one of the two is refused.
pub fn zeroes_are_read<D: Disk, M: Metadata>(
    pool: &mut Pool<D, M>,
    id: DevId,
    sector: u64,
    no_hole: bool,
    fua: bool,
    out: &mut [u8],
) -> Result<(), Refusal>
    requires whole { length out.old % 512 ≡ 0 }
    requires range { sector + length out.old / 512 ≤ sectors_of_volume (M.geometry pool.old.metadata) }
    requires most { length out.old / 512 ≤ 2048 }
    ensures { OnOk result ((s : PlainPool) → shows M.Metadata pool.old s → sectors_of out.new ≡ replicate (length out.new / 512) zero_sector) }
{
    let count = out.len() as u64 / 512;
    pool.write_zeroes(id, sector, count, no_hole, fua)?;
    pool.read(id, sector, out)?;
    Ok(())
}
