//! A pool in memory with one volume.
ghost use Rattle.std.specs.Prelude.{◌≡◌, ◌+◌, ◌/◌, ◌%◌, ◌≤◌, [], IfErr, IfOk, length};
ghost use Rattle.tp_model.specs.Pool.{PlainPool};
ghost use Rattle.tp_meta.specs.Standing.{StandsFor, geometry_of};
ghost use Rattle.tp_pool.specs.Held.{shows};
ghost use Rattle.tp_users.specs.Users.{Bears, IsBlank, IsOutside, users_geometry};

use std::alloc::Global;
use tp_disk::MemDisk;
use tp_meta::Meta;
use tp_model::{DevId, Geometry, Refusal};
use tp_pool::{Pool, room_lasts_to_the_bound};

/// A pool in memory with one volume that has no data blocks: 16 blocks of 128 sectors, over as many data blocks.
pub fn blank_pool(alloc: Global, id: DevId) -> Result<Pool<MemDisk, Meta>, Refusal>
    ensures shows { IfOk result (λ pool. (s : PlainPool) × IsBlank id s × shows geometry_of StandsFor pool s) }
    ensures geometry { IfOk result (λ pool. geometry_of pool.metadata ≡ users_geometry) }
    ensures holders { IfOk result (λ pool. pool.holders ≡ []) }
    ensures failures { IfOk result (λ pool. pool.disk.failures ≡ 0) }
    ensures only { IfErr result (λ reason. IsOutside reason) }
{
    let geometry = Geometry::new(128, 16, 2048, 16)?;
    let Ok(disk) = MemDisk::new(alloc, geometry.image_sectors()) else {
        return Err(Refusal::Memory);
    };
    let mut pool = match Pool::format(alloc, disk, geometry) {
        Ok(pool) => pool,
        Err((refusal, _)) => return Err(refusal),
    };
    pool.create_thin(id)?;
    Ok(pool)
}

/// The same, to whose volume these bytes were written from a sector on.
pub(crate) fn written_pool(
    alloc: Global,
    id: DevId,
    sector: u64,
    bytes: &[u8],
) -> Result<Pool<MemDisk, Meta>, Refusal>
    requires whole { length bytes.now % 512 ≡ 0 }
    requires range { sector + length bytes.now / 512 ≤ 2048 }
    ensures shows { IfOk result (λ pool. (s : PlainPool) × Bears id sector bytes.now s × shows geometry_of StandsFor pool s) }
    ensures geometry { IfOk result (λ pool. geometry_of pool.metadata ≡ users_geometry) }
    ensures only { IfErr result (λ reason. IsOutside reason) }
{
    let mut pool = blank_pool(alloc, id)?;
    room_lasts_to_the_bound::<Meta>();
    pool.write(id, sector, bytes, false)?;
    Ok(pool)
}
