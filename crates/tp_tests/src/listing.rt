//! LIST in a pool with as many volumes as it may have, each with an id of 8 digits: one, and its snapshots.

ghost use Rattle.std.specs.Prelude.{◌≡◌};

use crate::sessions::{LIST, served};
use std::alloc::Global;
use std::test::Fail;
use tp_disk::{Disk, Fault, MemDisk};
use tp_meta::{Meta, Metadata};
use tp_model::{DevId, Geometry, Mode, Refusal};
use tp_samples::create_thin;

/// The first volume.
const FIRST: u32 = 10_000_000;

/// So many snapshots are made between two commits, since a disk in memory holds every write until it is flushed.
const ROUND: u16 = 1024;

/// Keeps what stands now, where the disk has the pool's size.
fn commit_on<M: Metadata, D: Disk>(
    metadata: &mut M,
    disk: &mut D,
    geometry: &Geometry,
) -> Result<(), Refusal>
    requires { M.geometry metadata.old ≡ geometry.now }
    ensures { M.geometry metadata.new ≡ geometry.now }
{
    if disk.sectors() < geometry.image_sectors() {
        return Err(Refusal::BadGeometry);
    }
    match metadata.commit(disk) {
        Ok(()) => Ok(()),
        Err(Fault) => Err(Refusal::Fault),
    }
}

/// Keeps what stands now before the first snapshot of a round.
fn commit_between_on<M: Metadata, D: Disk>(
    metadata: &mut M,
    disk: &mut D,
    geometry: &Geometry,
    number: u16,
) -> Result<(), Refusal>
    requires { M.geometry metadata.old ≡ geometry.now }
    ensures { M.geometry metadata.new ≡ geometry.now }
{
    if number % ROUND > 0 {
        return Ok(());
    }
    commit_on(metadata, disk, geometry)
}

/// Makes the first volume, where there is room.
fn begin_on<M: Metadata, D: Disk>(
    metadata: &mut M,
    disk: &mut D,
    geometry: &Geometry,
) -> Result<(), Refusal>
    requires { M.geometry metadata.old ≡ geometry.now }
    ensures { M.geometry metadata.new ≡ geometry.now }
{
    if disk.sectors() < geometry.image_sectors() || metadata.free_metadata() < 64 {
        return Err(Refusal::NoMetadataSpace);
    }
    Ok(metadata.create(disk, DevId::new(FIRST))?)
}

/// Makes the snapshot of this number of the first volume, where there is room.
fn snap_on<M: Metadata, D: Disk>(
    metadata: &mut M,
    disk: &mut D,
    geometry: &Geometry,
    number: u16,
) -> Result<(), Refusal>
    requires { M.geometry metadata.old ≡ geometry.now }
    ensures { M.geometry metadata.new ≡ geometry.now }
{
    commit_between_on(metadata, disk, geometry, number)?;
    if disk.sectors() < geometry.image_sectors() || metadata.free_metadata() < 64 {
        return Err(Refusal::NoMetadataSpace);
    }
    let id = DevId::new(FIRST + 1 + number as u32);
    Ok(metadata.snapshot(disk, DevId::new(FIRST), id)?)
}

/// Makes the first volume and so many snapshots of it, and keeps them.
fn snap_all_on<M: Metadata, D: Disk>(
    metadata: &mut M,
    disk: &mut D,
    geometry: &Geometry,
    snapshots: u16,
) -> Result<(), Refusal>
    requires { M.geometry metadata.old ≡ geometry.now }
{
    begin_on(metadata, disk, geometry)?;
    for number in 0..snapshots {
        snap_on(metadata, disk, geometry, number)?;
    }
    commit_on(metadata, disk, geometry)
}

/// A disk with a pool of 65,536 volumes. They are made by its metadata: a pool counts its volumes, leaf by leaf, before it makes another one.
fn crowded(alloc: Global) -> Result<MemDisk, Refusal> {
    let geometry = Geometry::new(128, 16, 8192, 4)?;
    let Ok(disk) = MemDisk::new(alloc, geometry.image_sectors()) else {
        return Err(Refusal::Memory);
    };
    let mut disk = disk;
    let mut metadata = Meta::format(alloc, &mut disk, geometry)?;
    snap_all_on(&mut metadata, &mut disk, &geometry, u16::MAX)?;
    Ok(disk)
}

/// There is no room for one volume more.
#[test]
fn the_longest_list(rt: HostRuntime) -> Result<(), Fail> {
    let disk = crowded(rt.alloc())?;
    let (sent, pool) = served(rt.alloc(), disk, LIST)?;
    let mut pool = pool;
    let more = create_thin(&mut pool, DevId::new(0));
    assert_eq!(rt;
        (sent.len(), more, pool.mode()),
        (2_097_172, Err(Refusal::TooManyDevices), Mode::Writable)
    );
    Ok(())
}
