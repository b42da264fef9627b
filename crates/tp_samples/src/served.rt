//! Servers of pools on caches over a disk in memory.

ghost use Rattle.std.specs.Prelude.{◌≡◌};
ghost use Rattle.std.specs.FinMap.{empty};
ghost use Rattle.tp_holders.specs.Holders.{holds_of};

use std::alloc::Global;
use tp_cache::ReadCache;
use tp_disk::MemDisk;
use tp_hub::Hub;
use tp_meta::Meta;
use tp_model::Refusal;
use tp_served::{Room, Served};

/// A pool on caches over a disk in memory.
pub type MemServed = Served<ReadCache<MemDisk>, Meta>;

/// Room for few blocks.
pub const ROOM: Room = Room {
    changed: 32,
    read: 4,
};

/// The hub over a pool of which nobody holds a volume.
fn hub_of(pool: MemServed) -> Hub<MemServed>
    requires { holds_of pool.besides.holders ≡ empty }
{
    Hub::new(pool)
}

/// The hub over the pool of a disk.
pub fn opened_hub(alloc: Global, disk: MemDisk) -> Result<Hub<MemServed>, Refusal> {
    match MemServed::open(alloc, disk, ROOM) {
        Ok(pool) => Ok(hub_of(pool)),
        Err((refusal, _)) => Err(refusal),
    }
}
