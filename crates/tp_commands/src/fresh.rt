//! A fresh pool in memory.

ghost use Rattle.std.specs.Prelude.{IfOk, ◌≡◌};
ghost use Rattle.std.specs.FinMap.{empty};
ghost use Rattle.tp_model.specs.Pool.{PlainPool};
ghost use Rattle.tp_meta.specs.Standing.{StandsFor, changed_of, geometry_of, marks_of, room_of};
ghost use Rattle.tp_holders.specs.Holders.{holds_of};
ghost use Rattle.tp_served.specs.Served.{cached};
ghost use Rattle.tp_commands.specs.First.{IsFirst};
ghost use Rattle.tp_commands.specs.Living.{IsJust};

use crate::caches::ROOM;
use std::alloc::Global;
use tp_cache::ReadCache;
use tp_disk::MemDisk;
use tp_meta::Meta;
use tp_model::{DevId, Geometry, Refusal};
use tp_msg::Message;
use tp_served::Served;

/// A pool in memory with one volume, of id 0 and without data blocks: 16 virtual blocks over 4 data blocks of 128 sectors, and
/// 2048 metadata blocks.
pub fn fresh_pool(alloc: Global) -> Result<Served<ReadCache<MemDisk>, Meta>, Refusal>
    ensures empty { IfOk result (λ pool. holds_of pool.besides.holders ≡ empty) }
    ensures shows { IfOk result (λ pool. (s : PlainPool) × IsFirst s × IsJust (cached geometry_of StandsFor marks_of room_of changed_of) pool s) }
{
    let geometry = Geometry::new(128, 16, 2048, 4)?;
    let Ok(disk) = MemDisk::new(alloc, geometry.image_sectors()) else {
        return Err(Refusal::Memory);
    };
    let mut pool = match Served::format(alloc, disk, geometry, ROOM) {
        Ok(pool) => pool,
        Err((refusal, _)) => return Err(refusal),
    };
    pool.order(&Message::CreateThin { id: DevId::new(0) })?;
    Ok(pool)
}
