//! Pools on caches over a disk in memory whose calls are counted, and their calls with sectors of one byte each.

use crate::tallies::TalliedDisk;
use std::alloc::Global;
use tp_cache::ReadCache;
use tp_check::check;
use tp_disk::MemDisk;
use tp_meta::Meta;
use tp_model::{DevId, Geometry, Refusal, Volumes};
use tp_msg::{Managed, Message};
use tp_served::{Room, Served};

pub(crate) type MemServed = Served<ReadCache<TalliedDisk<MemDisk>>, Meta>;

pub(crate) const SECTOR: usize = 512;

/// Room for all changed blocks of a small pool.
pub(crate) const MANY: Room = Room {
    changed: 1024,
    read: 256,
};

/// Room for few of them, so that some are written before the flush.
pub(crate) const FEW: Room = Room {
    changed: 32,
    read: 4,
};

pub(crate) fn create_thin(pool: &mut MemServed, id: DevId) -> Result<(), Refusal> {
    pool.order(&Message::CreateThin { id })
}

pub(crate) fn flush(pool: &mut MemServed) -> Result<(), Refusal> {
    pool.flush()
}

/// What closing answers, and the disk in memory.
pub(crate) fn close(pool: MemServed) -> (Result<(), Refusal>, MemDisk) {
    let (answer, disk) = pool.close();
    (answer, disk.into_inner())
}

/// Makes a disk the empty pool of this geometry.
fn formatted(alloc: Global, geometry: Geometry, room: Room) -> Result<MemServed, Refusal> {
    let Ok(disk) = MemDisk::new(alloc, geometry.image_sectors()) else {
        return Err(Refusal::Memory);
    };
    match MemServed::format(alloc, TalliedDisk::new(disk), geometry, room) {
        Ok(pool) => Ok(pool),
        Err((refusal, _)) => Err(refusal),
    }
}

/// A pool, with one volume more.
pub(crate) fn with_new(mut pool: MemServed, id: DevId) -> Result<MemServed, Refusal> {
    create_thin(&mut pool, id)?;
    Ok(pool)
}

/// Makes a disk the pool of this geometry with volume 0.
pub(crate) fn with_volume(
    alloc: Global,
    geometry: Geometry,
    room: Room,
) -> Result<MemServed, Refusal> {
    with_new(formatted(alloc, geometry, room)?, DevId::new(0))
}

/// The pool of a disk, whose calls are counted from now on.
pub(crate) fn opened(alloc: Global, disk: MemDisk, room: Room) -> Result<MemServed, Refusal> {
    match MemServed::open(alloc, TalliedDisk::new(disk), room) {
        Ok(pool) => Ok(pool),
        Err((refusal, _)) => Err(refusal),
    }
}

/// The disk of a pool whose closing is answered.
pub(crate) fn closed(pool: MemServed) -> Result<MemDisk, Refusal> {
    let (answer, disk) = close(pool);
    answer?;
    Ok(disk)
}

/// Whether a check finds the image on a disk clean.
pub(crate) fn is_clean(alloc: Global, disk: &mut MemDisk) -> bool {
    check(alloc, disk).is_ok()
}

/// Writes whole sectors of a volume, where it has them.
pub(crate) fn write(
    pool: &mut MemServed,
    id: DevId,
    sector: u64,
    bytes: &[u8],
) -> Result<(), Refusal> {
    let count = bytes.len() as u64 / 512;
    let end = pool.geometry().volume_sectors();
    if bytes.len() % SECTOR != 0 || count > 2048 || sector > end || count > end - sector {
        return Err(Refusal::BadGeometry);
    }
    pool.write(id, sector, bytes, false)
}

/// The byte that fills a sector of a volume, where it has it and one does.
pub(crate) fn byte_at(pool: &mut MemServed, id: DevId, sector: u64) -> Result<u8, Refusal> {
    let mut out = [255; SECTOR];
    if sector >= pool.geometry().volume_sectors() {
        return Err(Refusal::BadGeometry);
    }
    pool.read(id, sector, &mut out)?;
    if out != [out[0]; SECTOR] {
        return Err(Refusal::Damaged);
    }
    Ok(out[0])
}

/// What is told of a pool by a function that has it by `&mut`. Who owns a pool is proved to let all parts of it go at each exit: this one owns it.
fn told_by<T, F: FnOnce(&mut MemServed) -> T + Drop>(mut pool: MemServed, tell: F) -> T
    requires { F.IsAlwaysCallable tell }
{
    tell(&mut pool)
}

/// What is told of the pool of a disk.
pub(crate) fn told_of_opened<T, F: FnOnce(&mut MemServed) -> T + Drop>(
    alloc: Global,
    disk: MemDisk,
    room: Room,
    tell: F,
) -> Result<T, Refusal>
    requires { F.IsAlwaysCallable tell }
{
    Ok(told_by(opened(alloc, disk, room)?, tell))
}
