//! A pool over a disk in memory, and its calls with sectors of one byte each.
ghost use Rattle.std.specs.Prelude.{◌≡◌, [], IfOk};

use std::alloc::Global;
use tp_disk::MemDisk;
use tp_meta::Meta;
use tp_model::{DevId, Geometry, Refusal};
use tp_pool::Pool;

/// A pool over a disk in memory.
pub type MemPool = Pool<MemDisk, Meta>;

/// Bytes of a sector.
pub const SECTOR: usize = 512;

/// The empty pool of this geometry, over a disk as large as it wants.
pub fn empty(alloc: Global, geometry: Geometry) -> Result<MemPool, Refusal>
    ensures { IfOk result (λ pool. pool.holders ≡ []) }
{
    let Ok(disk) = MemDisk::new(alloc, geometry.image_sectors()) else {
        return Err(Refusal::Memory);
    };
    match Pool::<MemDisk, Meta>::format(alloc, disk, geometry) {
        Ok(pool) => Ok(pool),
        Err((refusal, _)) => Err(refusal),
    }
}

/// A pool of four data blocks with volume 0.
pub fn example(alloc: Global) -> Result<MemPool, Refusal>
    ensures { IfOk result (λ pool. pool.holders ≡ []) }
{
    let mut pool = empty(alloc, Geometry::new(128, 16, 2048, 4)?)?;
    pool.create_thin(DevId::new(0))?;
    Ok(pool)
}

/// The pool of a disk.
pub fn opened(alloc: Global, disk: MemDisk) -> Result<MemPool, Refusal> {
    match Pool::<MemDisk, Meta>::open(alloc, disk) {
        Ok(pool) => Ok(pool),
        Err((refusal, _)) => Err(refusal),
    }
}

/// The byte that fills all of these, if one does.
pub fn fill_of(bytes: &[u8]) -> Option<u8> {
    let first = bytes.first().copied()?;
    for byte in bytes {
        if *byte != first {
            return None;
        }
    }
    Some(first)
}

/// The byte that fills a sector of a volume, if one does.
pub fn byte_at(pool: &mut MemPool, id: DevId, sector: u64) -> Result<Option<u8>, Refusal> {
    let mut out = [255; SECTOR];
    if sector >= pool.geometry().volume_sectors() {
        return Err(Refusal::BadGeometry);
    }
    pool.read(id, sector, &mut out)?;
    Ok(fill_of(&out))
}

/// Writes whole sectors of a volume, where it has them.
pub fn write(pool: &mut MemPool, id: DevId, sector: u64, bytes: &[u8]) -> Result<(), Refusal> {
    let count = bytes.len() as u64 / 512;
    let end = pool.geometry().volume_sectors();
    if bytes.len() % SECTOR != 0 || count > 2048 || sector > end || count > end - sector {
        return Err(Refusal::BadGeometry);
    }
    pool.write(id, sector, bytes, false)
}

/// Reads whole sectors of a volume, where it has them.
pub fn read(pool: &mut MemPool, id: DevId, sector: u64, out: &mut [u8]) -> Result<(), Refusal> {
    let count = out.len() as u64 / 512;
    let end = pool.geometry().volume_sectors();
    if out.len() % SECTOR != 0 || sector > end || count > end - sector {
        return Err(Refusal::BadGeometry);
    }
    pool.read(id, sector, out)
}

/// Trims sectors of volume 0, where it has them.
pub fn trim(pool: &mut MemPool, sector: u64, count: u64) -> Result<(), Refusal> {
    let end = pool.geometry().volume_sectors();
    if count > 2048 || sector > end || count > end - sector {
        return Err(Refusal::BadGeometry);
    }
    pool.trim(DevId::new(0), sector, count, false)
}

/// Makes sectors of volume 0 zero, where it has them.
pub fn write_zeroes(
    pool: &mut MemPool,
    sector: u64,
    count: u64,
    no_hole: bool,
) -> Result<(), Refusal> {
    let end = pool.geometry().volume_sectors();
    if count > 2048 || sector > end || count > end - sector {
        return Err(Refusal::BadGeometry);
    }
    pool.write_zeroes(DevId::new(0), sector, count, no_hole, false)
}
