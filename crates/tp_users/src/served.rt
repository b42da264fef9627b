//! What users of a pool on caches may rely on, in words of the disk that they gave.
ghost use Rattle.std.specs.Prelude.{◌≡◌, ◌⊎◌, List, IfErr, IfOk, OnOk};
ghost use Rattle.tp_model.specs.Sectors.{Sector};
ghost use Rattle.tp_model.specs.Pool.{PlainPool};
ghost use Rattle.tp_model.specs.PoolStops.{reopened};
ghost use Rattle.tp_model.specs.DiskStops.{AfterStop};
ghost use Rattle.tp_model.specs.declared.mode.Mode.TheVariants as mode;
ghost use Rattle.tp_image.specs.Stands as images;
ghost use Rattle.tp_meta.specs.Standing.{StandsFor, geometry_of};
ghost use Rattle.tp_pool.specs.Held.{IsSomePool, shows};
ghost use Rattle.tp_served.specs.Served.{disk_of, on_cache};
ghost use Rattle.tp_users.specs.Users.{IsKept};

use std::alloc::Global;
use tp_cache::ReadCache;
use tp_disk::Disk;
use tp_meta::Meta;
use tp_model::{Refusal, Volumes};
use tp_served::{Room, Served};

/// Flushes a pool that works. Behind an Ok each image that a stop may leave of the disk is opened as what the pool shows.
pub fn flushed_nodes_are_on_the_disk<D: Disk + Drop>(
    pool: &mut Served<ReadCache<D>, Meta>,
) -> Result<(), Refusal>
    ensures { OnOk result ((s : PlainPool) → shows geometry_of StandsFor (on_cache pool.old) s → (image : List Sector) → AfterStop (disk_of pool.new).cells image
        → IsSomePool image × images.StandsFor image (reopened s)) }
{
    pool.flush()
}

fn closed<D: Disk + Drop>(pool: Served<ReadCache<D>, Meta>) -> Result<D, (Refusal, D)>
    ensures { IfOk result (λ disk. (s : PlainPool) → shows geometry_of StandsFor (on_cache pool) s → s.mode ≡ mode.Writable → IsKept s (D.state disk)) }
{
    match pool.close() {
        (Ok(()), disk) => Ok(disk),
        (Err(refusal), disk) => Err((refusal, disk)),
    }
}

/// Closes a pool, and opens it again from the disk that it handed back: where it worked, it shows what it showed.
pub fn closed_pool_is_opened_again<D: Disk + Drop>(
    alloc: Global,
    pool: Served<ReadCache<D>, Meta>,
    room: Room,
) -> Result<Served<ReadCache<D>, Meta>, (Refusal, D)>
    ensures { IfOk result (λ again. (s : PlainPool) → shows geometry_of StandsFor (on_cache pool) s → s.mode ≡ mode.Writable
        → shows geometry_of StandsFor (on_cache again) (reopened s)) }
{
    match closed(pool) {
        Ok(disk) => Served::open(alloc, disk, room),
        Err(back) => Err(back),
    }
}
