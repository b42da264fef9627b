//! A small image in memory.

use std::alloc::Global;
use std::test::Fail;
use tp_disk::{Disk, MemDisk};
use tp_model::{DevId, Geometry, Refusal};
use tp_samples::{
    MemPool, SECTOR, closed, create_snap, create_thin, empty, flush, set_transaction_id, write,
};

/// Sectors of the image: 1032 metadata blocks, of which the trees begin at block 8, and four data blocks.
pub(crate) const SECTORS: u64 = 8768;

/// Volumes of two blocks.
fn sizes() -> Result<Geometry, Refusal> {
    Geometry::new(128, 2, 1032, 4)
}

/// Makes volume 0, a snapshot of it, to both of which is written then, and a snapshot of that, which shares its leaf: three data blocks are
/// mapped. The root of the devices stands in block 8, the leaf of volume 0 in block 10, and that of both others in block 13. The last commit
/// changes the transaction id alone: its superblock stands in slot 1, its counts in blocks 5 to 7.
fn fill(pool: &mut MemPool) -> Result<(), Refusal> {
    create_thin(pool, DevId::new(0))?;
    write(pool, DevId::new(0), 5, &[1; SECTOR])?;
    create_snap(pool, DevId::new(1), DevId::new(0))?;
    write(pool, DevId::new(0), 7, &[2; SECTOR])?;
    write(pool, DevId::new(1), 130, &[3; SECTOR])?;
    flush(pool)?;
    create_snap(pool, DevId::new(2), DevId::new(1))?;
    set_transaction_id(pool, 0, 1)
}

/// The pool with these volumes.
fn filled(alloc: Global) -> Result<MemPool, Fail> {
    let mut pool = empty(alloc, sizes()?)?;
    fill(&mut pool)?;
    Ok(pool)
}

/// Its image.
fn image(alloc: Global) -> Result<MemDisk, Fail> {
    Ok(closed(filled(alloc)?)?)
}

/// The bytes of all sectors.
fn all_of(alloc: Global, disk: &mut MemDisk) -> Result<Vec<u8>, Fail> {
    if disk.sectors() < SECTORS {
        return Err(Fail::from(Refusal::BadGeometry));
    }
    let mut bytes = Vec::from_elem(alloc, 0, SECTOR * SECTORS as usize)?;
    disk.read(0, &mut bytes)?;
    Ok(bytes)
}

/// Those of the image.
pub(crate) fn bytes_of_image(alloc: Global) -> Result<Vec<u8>, Fail> {
    let mut disk = image(alloc)?;
    all_of(alloc, &mut disk)
}
