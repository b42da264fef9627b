//! What is refused has no effect.
ghost use Rattle.std.specs.Prelude.{◌≡◌, ◌+◌, ◌/◌, ◌%◌, ◌≤◌, Err, IfOk, IsTrue, length};
ghost use Rattle.tp_model.specs.Geometry.{sectors_of_volume};
ghost use Rattle.tp_model.specs.Pool.{PlainPool};
ghost use Rattle.tp_pool.specs.AtMetadata.{shows};

use tp_disk::Disk;
use tp_meta::Metadata;
use tp_model::{DevId, Refusal};
use tp_pool::Pool;

fn lacks_data(answer: &Result<(), Refusal>) -> bool
    ensures { IsTrue result → answer.now ≡ Err Refusal.NoDataSpace }
{
    matches!(answer, Err(Refusal::NoDataSpace))
}

/// Reads sectors of a volume, writes to it, and reads the same sectors again: whether the write was refused for want of data blocks. Then both
/// readings gave the same.
///
/// It refuses where one of the readings is refused.
pub fn refused_write_is_nothing<D: Disk, M: Metadata>(
    pool: &mut Pool<D, M>,
    id: DevId,
    sector: u64,
    bytes: &[u8],
    before: &mut [u8],
    after: &mut [u8],
) -> Result<bool, Refusal>
    requires whole { length bytes.now % 512 ≡ 0 }
    requires range { sector + length bytes.now / 512 ≤ sectors_of_volume (M.geometry pool.old.metadata) }
    requires most { length bytes.now / 512 ≤ 2048 }
    requires read { length before.old ≡ length bytes.now }
    requires again { length after.old ≡ length bytes.now }
    ensures { IfOk result (λ refused. IsTrue refused → (s : PlainPool) → shows M.Metadata pool.old s → after.new ≡ before.new) }
{
    pool.read(id, sector, before)?;
    let written = pool.write(id, sector, bytes, true);
    pool.read(id, sector, after)?;
    Ok(lacks_data(&written))
}
