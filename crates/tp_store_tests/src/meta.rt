//! The number of devices, which metadata tell without the disk.
ghost use Rattle.std.specs.Prelude.{◌≡◌, ◌≤◌, ◌<◌};
ghost use Rattle.tp_model.specs.Geometry.{sectors_of_image};

use crate::guarded::told_of_disk;
use std::alloc::Global;
use tp_disk::{Disk, Fault, MemDisk};
use tp_meta::{Meta, Metadata};
use tp_model::{DevId, Geometry, Refusal, Vb};

/// Sectors of the image of the example pool.
const SECTORS: u64 = 16896;

fn example() -> Result<Geometry, Refusal> {
    Geometry::new(128, 16, 2048, 4)
}

/// Gives a virtual block a data block, where the disk has the pool's size and there is room.
fn map_on<M: Metadata, D: Disk>(
    metadata: &mut M,
    disk: &mut D,
    geometry: &Geometry,
    device: DevId,
    block: Vb,
) -> Result<(), Refusal>
    requires { M.geometry metadata.old ≡ geometry.now }
    ensures { M.geometry metadata.new ≡ geometry.now }
{
    if metadata.free_metadata() < 16 || block.number() >= geometry.virtual_blocks() {
        return Err(Refusal::NoMetadataSpace);
    }
    if disk.sectors() < geometry.image_sectors() {
        return Err(Refusal::BadGeometry);
    }
    match metadata.map(disk, device, block)? {
        Some(_) => Ok(()),
        None => Err(Refusal::NoDataSpace),
    }
}

/// Gives the first virtual blocks of a device data blocks.
fn fill_on<M: Metadata, D: Disk>(
    metadata: &mut M,
    disk: &mut D,
    geometry: &Geometry,
    device: DevId,
    blocks: u16,
) -> Result<(), Refusal>
    requires { M.geometry metadata.old ≡ geometry.now }
    ensures { M.geometry metadata.new ≡ geometry.now }
{
    for block in 0..blocks {
        map_on(metadata, disk, geometry, device, Vb::new(block as u32))?;
    }
    Ok(())
}

/// Keeps what stands now.
fn commit_all_on<M: Metadata, D: Disk>(
    metadata: &mut M,
    disk: &mut D,
    geometry: &Geometry,
) -> Result<(), Refusal>
    requires { M.geometry metadata.old ≡ geometry.now }
    ensures { M.geometry metadata.new ≡ geometry.now }
{
    if disk.sectors() < geometry.image_sectors() {
        return Err(Refusal::BadGeometry);
    }
    match metadata.commit(disk) {
        Ok(()) => Ok(()),
        Err(Fault) => Err(Refusal::Fault),
    }
}

/// Makes device 1 with so many data blocks, and device 2 as a snapshot of it.
fn two_devices_on<M: Metadata, D: Disk>(
    metadata: &mut M,
    disk: &mut D,
    geometry: &Geometry,
    blocks: u16,
) -> Result<(), Refusal>
    requires { M.geometry metadata.old ≡ geometry.now }
    ensures { M.geometry metadata.new ≡ geometry.now }
{
    let (one, two) = (DevId::new(1), DevId::new(2));
    if disk.sectors() < geometry.image_sectors() || metadata.free_metadata() < 64 {
        return Err(Refusal::BadGeometry);
    }
    metadata.create(disk, one)?;
    fill_on(metadata, disk, geometry, one, blocks)?;
    if disk.sectors() < geometry.image_sectors() || metadata.free_metadata() < 64 {
        return Err(Refusal::BadGeometry);
    }
    Ok(metadata.snapshot(disk, one, two)?)
}

/// Removes device 1.
fn delete_on<M: Metadata, D: Disk>(
    metadata: &mut M,
    disk: &mut D,
    geometry: &Geometry,
) -> Result<(), Refusal>
    requires { M.geometry metadata.old ≡ geometry.now }
    ensures { M.geometry metadata.new ≡ geometry.now }
{
    if disk.sectors() < geometry.image_sectors() || metadata.free_metadata() < 16 {
        return Err(Refusal::BadGeometry);
    }
    Ok(metadata.delete(disk, DevId::new(1))?)
}

/// How many devices there are.
fn devices_on<M: Metadata, D: Disk>(
    metadata: &M,
    disk: &mut D,
    geometry: &Geometry,
) -> Result<u32, Refusal>
    requires { M.geometry metadata.now ≡ geometry.now }
{
    if disk.sectors() < geometry.image_sectors() {
        return Err(Refusal::BadGeometry);
    }
    Ok(metadata.devices(disk)?)
}

/// Makes two devices of three data blocks and keeps them.
fn keep_two_devices<M: Metadata, D: Disk>(
    metadata: &mut M,
    disk: &mut D,
    geometry: &Geometry,
) -> Result<(), Refusal>
    requires { M.geometry metadata.old ≡ geometry.now }
    ensures { M.geometry metadata.new ≡ geometry.now }
{
    two_devices_on(metadata, disk, geometry, 3)?;
    commit_all_on(metadata, disk, geometry)
}

/// How many devices are told, and by how many calls of the disk.
fn counted_on<M: Metadata>(
    metadata: &M,
    disk: &mut MemDisk,
    geometry: &Geometry,
) -> Result<(u32, u64), Refusal>
    requires { M.geometry metadata.now ≡ geometry.now }
{
    let before = disk.calls();
    let devices = devices_on(metadata, disk, geometry)?;
    Ok((devices, disk.calls().saturating_sub(before)))
}

/// What is told of two devices that were kept, and when one of them was removed.
fn counts_about_a_deletion<M: Metadata>(
    metadata: &mut M,
    disk: &mut MemDisk,
    geometry: &Geometry,
) -> Result<[(u32, u64); 2], Refusal>
    requires { M.geometry metadata.old ≡ geometry.now }
{
    keep_two_devices(metadata, disk, geometry)?;
    let both = counted_on(metadata, disk, geometry)?;
    delete_on(metadata, disk, geometry)?;
    Ok([both, counted_on(metadata, disk, geometry)?])
}

/// What is told of the devices of a disk that is opened.
fn counted_behind_opening(alloc: Global, disk: &mut MemDisk) -> Result<(u32, u64), Refusal> {
    let meta = Meta::open(alloc, disk)?;
    let sizes = meta.geometry();
    counted_on(&meta, disk, &sizes)
}

/// The same of a new disk.
fn counted_on_new(alloc: Global, disk: &mut MemDisk) -> Result<[(u32, u64); 2], Refusal> {
    let geometry = example()?;
    let mut meta = Meta::format(alloc, disk, geometry)?;
    counts_about_a_deletion(&mut meta, disk, &geometry)
}

/// What is told of the devices where one of two was removed, and of those that were kept.
fn told_of_devices(
    alloc: Global,
    disk: &mut MemDisk,
) -> Result<([(u32, u64); 2], (u32, u64)), Refusal> {
    let told = counted_on_new(alloc, disk)?;
    Ok((told, counted_behind_opening(alloc, disk)?))
}

#[test]
fn devices_are_told_without_the_disk(rt: HostRuntime) {
    let told = told_of_disk(rt.alloc(), SECTORS, told_of_devices);
    assert_eq!(rt; told, Ok(([(2, 0), (1, 0)], (2, 0))));
}
