//! A pool with a volume that is written.

use crate::disks::{Before, noted};
use std::alloc::Global;
use tp_disk::MemDisk;
use tp_hub::Hub;
use tp_model::{DevId, Geometry, Refusal, Volumes};
use tp_msg::{Managed, Message};
use tp_samples::{MemServed, ROOM, opened_hub};

/// The sizes of the pool: 16 virtual blocks over 4 data blocks of 128 sectors.
fn sizes() -> Result<Geometry, Refusal> {
    Geometry::new(128, 16, 1032, 4)
}

/// Makes volume 0, and fills its first sector.
fn fill(pool: &mut MemServed) -> Result<(), Refusal> {
    let id = DevId::new(0);
    pool.order(&Message::CreateThin { id })?;
    if pool.geometry().volume_sectors() == 0 {
        return Err(Refusal::BadGeometry);
    }
    pool.write(id, 0, &[0x61; 512], false)
}

/// The pool of a disk that was formatted.
fn formatted_on(alloc: Global, disk: MemDisk, geometry: Geometry) -> Result<MemServed, Refusal> {
    match MemServed::format(alloc, disk, geometry, ROOM) {
        Ok(pool) => Ok(pool),
        Err((refusal, _)) => Err(refusal),
    }
}

/// The same of a disk of zeros.
fn formatted(alloc: Global, geometry: Geometry) -> Result<MemServed, Refusal> {
    match MemDisk::new(alloc, geometry.image_sectors()) {
        Ok(disk) => formatted_on(alloc, disk, geometry),
        Err(_) => Err(Refusal::Memory),
    }
}

/// The disk of a pool that is closed, or why filling its volume or closing it was refused.
fn closed(pool: MemServed, filled: Result<(), Refusal>) -> Result<MemDisk, Refusal> {
    let (answer, disk) = pool.close();
    filled?;
    answer?;
    Ok(disk)
}

/// The disk of a pool with volume 0, closed.
fn disk_of_volume(alloc: Global) -> Result<MemDisk, Refusal> {
    let mut pool = formatted(alloc, sizes()?)?;
    let filled = fill(&mut pool);
    closed(pool, filled)
}

/// The hub over the pool of a disk, and what the disk had before. None where it is not opened.
fn opened_behind(alloc: Global, disk: MemDisk) -> Option<(Hub<MemServed>, Before)> {
    let before = noted(alloc, &disk)?;
    match opened_hub(alloc, disk) {
        Ok(hub) => Some((hub, before)),
        Err(_) => None,
    }
}

/// The hub over the pool of a volume, and what its disk had before. None where memory was refused.
pub(crate) fn hub_of_volume(alloc: Global) -> Option<(Hub<MemServed>, Before)> {
    match disk_of_volume(alloc) {
        Ok(disk) => opened_behind(alloc, disk),
        Err(_) => None,
    }
}

/// Whether the disk of a hub has all that it had, and was not written since.
pub(crate) fn is_kept(hub: Hub<MemServed>, before: &Before) -> bool {
    before.is_kept(&hub.into_pool().into_disk())
}
