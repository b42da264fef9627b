//! The same commands for a list and for trees.

ghost use Rattle.std.specs.Prelude.{◌≡◌, ◌≤◌, ◌<◌, IsTrue};
ghost use Rattle.tp_model.specs.Geometry.{sectors_of_image};

use crate::guarded::told_of_disk;
use std::alloc::Global;
use tp_disk::{Disk, MemDisk};
use tp_list_mapping::ListMapping;
use tp_mapping::{Mapped, Mapping, TreeMapping};
use tp_meta::format;
use tp_model::{DevId, Geometry, Mb, Pb, Refusal, Vb};

const DEVICES: u32 = 6;

const BLOCKS: u32 = 16;

/// What is told of a virtual block and its device: where it stands, how many have a data block, and the greatest.
type Told = (Option<Mapped>, Option<u32>, Option<Vb>);

#[derive(Clone, Copy)]
enum Command {
    Create,
    Snapshot(DevId),
    Map(Vb),
    Unmap(Vb),
    Delete,
    Keep,
}

/// What a number wants: most commands map a virtual block or take its data block away.
fn command_of(seed: u64) -> Command {
    let block = Vb::new((seed >> 40) as u32 % BLOCKS);
    match (seed >> 53) % 64 {
        0 => Command::Delete,
        1..=3 => Command::Keep,
        4..=7 => Command::Create,
        8..=13 => Command::Snapshot(DevId::new((seed >> 46) as u32 % DEVICES)),
        14..=26 => Command::Unmap(block),
        _ => Command::Map(block),
    }
}

/// Whether the disk has the pool's size, and there is room for any command.
fn has_room<M: Mapping, D: Disk>(mapping: &M, disk: &D, geometry: &Geometry) -> bool
    requires { M.geometry mapping.now ≡ geometry.now }
    ensures disk { IsTrue result → sectors_of_image (M.geometry mapping.now) ≤ (D.state disk.now).size }
    ensures room { IsTrue result → 24 ≤ M.room mapping.now }
{
    if disk.sectors() < geometry.image_sectors() {
        return false;
    }
    mapping.free_metadata() >= 24
}

/// What is told of a virtual block and of its device.
fn told_of<M: Mapping, D: Disk>(
    mapping: &M,
    disk: &mut D,
    geometry: &Geometry,
    device: DevId,
    block: Vb,
) -> Result<Told, Refusal>
    requires { M.geometry mapping.now ≡ geometry.now }
{
    if block.number() >= geometry.virtual_blocks() || disk.sectors() < geometry.image_sectors() {
        return Err(Refusal::BadGeometry);
    }
    let place = mapping.look_up(disk, device, block)?;
    let mapped = mapping.mapped(disk, device)?;
    Ok((place, mapped, mapping.highest(disk, device)?))
}

/// Gives a virtual block a data block.
fn map<M: Mapping, D: Disk>(
    mapping: &mut M,
    disk: &mut D,
    geometry: &Geometry,
    device: DevId,
    block: Vb,
) -> Result<Option<Pb>, Refusal>
    requires { M.geometry mapping.old ≡ geometry.now }
    ensures { M.geometry mapping.new ≡ geometry.now }
{
    if !has_room(mapping, disk, geometry) || block.number() >= geometry.virtual_blocks() {
        return Err(Refusal::NoMetadataSpace);
    }
    Ok(mapping.map(disk, device, block)?)
}

/// Takes a virtual block its data block.
fn unmap<M: Mapping, D: Disk>(
    mapping: &mut M,
    disk: &mut D,
    geometry: &Geometry,
    device: DevId,
    block: Vb,
) -> Result<(), Refusal>
    requires { M.geometry mapping.old ≡ geometry.now }
    ensures { M.geometry mapping.new ≡ geometry.now }
{
    if !has_room(mapping, disk, geometry) || block.number() >= geometry.virtual_blocks() {
        return Err(Refusal::NoMetadataSpace);
    }
    Ok(mapping.unmap_run(disk, device, block, 1)?)
}

/// Adds a device: without slots, or with those of another one.
fn add<M: Mapping, D: Disk>(
    mapping: &mut M,
    disk: &mut D,
    geometry: &Geometry,
    device: DevId,
    origin: Option<DevId>,
) -> Result<(), Refusal>
    requires { M.geometry mapping.old ≡ geometry.now }
    ensures { M.geometry mapping.new ≡ geometry.now }
{
    if !has_room(mapping, disk, geometry) {
        return Err(Refusal::NoMetadataSpace);
    }
    match origin {
        Some(origin) => mapping.snapshot(disk, origin, device)?,
        None => mapping.create(disk, device)?,
    }
    Ok(())
}

fn delete<M: Mapping, D: Disk>(
    mapping: &mut M,
    disk: &mut D,
    geometry: &Geometry,
    device: DevId,
) -> Result<(), Refusal>
    requires { M.geometry mapping.old ≡ geometry.now }
    ensures { M.geometry mapping.new ≡ geometry.now }
{
    if !has_room(mapping, disk, geometry) {
        return Err(Refusal::NoMetadataSpace);
    }
    Ok(mapping.delete(disk, device)?)
}

/// Whether there is such a device.
fn has<M: Mapping, D: Disk>(
    mapping: &M,
    disk: &mut D,
    geometry: &Geometry,
    device: DevId,
) -> Result<bool, Refusal>
    requires { M.geometry mapping.now ≡ geometry.now }
{
    let (_, mapped, _) = told_of(mapping, disk, geometry, device, Vb::new(0))?;
    Ok(mapped.is_some())
}

/// Adds a device with the slots of another one, where there is that one.
fn add_of<M: Mapping, D: Disk>(
    mapping: &mut M,
    disk: &mut D,
    geometry: &Geometry,
    device: DevId,
    origin: DevId,
) -> Result<(), Refusal>
    requires { M.geometry mapping.old ≡ geometry.now }
    ensures { M.geometry mapping.new ≡ geometry.now }
{
    if !has(mapping, disk, geometry, origin)? {
        return Ok(());
    }
    add(mapping, disk, geometry, device, Some(origin))
}

/// Takes a virtual block its data block, where it has one.
fn unmap_mapped<M: Mapping, D: Disk>(
    mapping: &mut M,
    disk: &mut D,
    geometry: &Geometry,
    device: DevId,
    block: Vb,
) -> Result<Option<Pb>, Refusal>
    requires { M.geometry mapping.old ≡ geometry.now }
    ensures { M.geometry mapping.new ≡ geometry.now }
{
    let (place, _, _) = told_of(mapping, disk, geometry, device, block)?;
    if place.is_none() {
        return Ok(None);
    }
    unmap(mapping, disk, geometry, device, block)?;
    Ok(None)
}

/// Does what a command wants with an id that no device has.
fn perform_without<M: Mapping, D: Disk>(
    mapping: &mut M,
    disk: &mut D,
    geometry: &Geometry,
    device: DevId,
    command: &Command,
) -> Result<(), Refusal>
    requires { M.geometry mapping.old ≡ geometry.now }
    ensures { M.geometry mapping.new ≡ geometry.now }
{
    match *command {
        Command::Create => add(mapping, disk, geometry, device, None),
        Command::Snapshot(origin) => add_of(mapping, disk, geometry, device, origin),
        Command::Keep => {
            mapping.keep();
            Ok(())
        }
        _ => Ok(()),
    }
}

/// Does what a command wants of a device that there is.
fn perform_with<M: Mapping, D: Disk>(
    mapping: &mut M,
    disk: &mut D,
    geometry: &Geometry,
    device: DevId,
    command: &Command,
) -> Result<Option<Pb>, Refusal>
    requires { M.geometry mapping.old ≡ geometry.now }
    ensures { M.geometry mapping.new ≡ geometry.now }
{
    match *command {
        Command::Map(block) => map(mapping, disk, geometry, device, block),
        Command::Unmap(block) => unmap_mapped(mapping, disk, geometry, device, block),
        Command::Delete => {
            delete(mapping, disk, geometry, device)?;
            Ok(None)
        }
        Command::Keep => {
            mapping.keep();
            Ok(None)
        }
        _ => Ok(None),
    }
}

/// Does what a command wants, where it may: of a device that there is, or with an id that no device has.
fn perform<M: Mapping, D: Disk>(
    mapping: &mut M,
    disk: &mut D,
    geometry: &Geometry,
    device: DevId,
    command: &Command,
) -> Result<Option<Pb>, Refusal>
    requires { M.geometry mapping.old ≡ geometry.now }
    ensures { M.geometry mapping.new ≡ geometry.now }
{
    if !has(mapping, disk, geometry, device)? {
        perform_without(mapping, disk, geometry, device, command)?;
        return Ok(None);
    }
    perform_with(mapping, disk, geometry, device, command)
}

/// Whether both tell the same of each virtual block.
fn are_alike<A: Mapping, B: Mapping, D: Disk>(
    list: &A,
    trees: &B,
    disk: &mut D,
    geometry: &Geometry,
) -> Result<bool, Refusal>
    requires list { A.geometry list.now ≡ geometry.now }
    requires trees { B.geometry trees.now ≡ geometry.now }
{
    for i in 0..DEVICES * BLOCKS {
        let (device, block) = (DevId::new(i / BLOCKS), Vb::new(i % BLOCKS));
        let told = told_of(list, disk, geometry, device, block)?;
        if told_of(trees, disk, geometry, device, block)? != told {
            return Ok(false);
        }
    }
    Ok((list.used(), list.free_data()) == (trees.used(), trees.free_data()))
}

/// Gives both a command. Whether they told the same, and then tell the same.
fn step<A: Mapping, B: Mapping, D: Disk>(
    list: &mut A,
    trees: &mut B,
    disk: &mut D,
    geometry: &Geometry,
    seed: u64,
) -> Result<bool, Refusal>
    requires list { A.geometry list.old ≡ geometry.now }
    requires trees { B.geometry trees.old ≡ geometry.now }
    ensures list { A.geometry list.new ≡ geometry.now }
    ensures trees { B.geometry trees.new ≡ geometry.now }
{
    let device = DevId::new((seed >> 33) as u32 % DEVICES);
    let command = command_of(seed);
    let want = perform(list, disk, geometry, device, &command)?;
    let told = perform(trees, disk, geometry, device, &command)?;
    Ok(told == want && are_alike(list, trees, disk, geometry)?)
}

/// The first of so many commands after which they differ.
fn first_difference<A: Mapping, B: Mapping, D: Disk>(
    list: &mut A,
    trees: &mut B,
    disk: &mut D,
    geometry: &Geometry,
    commands: u32,
) -> Result<Option<u32>, Refusal>
    requires list { A.geometry list.old ≡ geometry.now }
    requires trees { B.geometry trees.old ≡ geometry.now }
{
    let mut seed = 1u64;
    for number in 0..commands {
        seed = seed.wrapping_mul(6_364_136_223_846_793_005).wrapping_add(1);
        if !step(list, trees, disk, geometry, seed)? {
            return Ok(Some(number));
        }
    }
    Ok(None)
}

/// The same of a list and of trees on a new disk, which have nothing.
fn first_difference_to<A: Mapping>(
    alloc: Global,
    list: &mut A,
    disk: &mut MemDisk,
    geometry: &Geometry,
) -> Result<Option<u32>, Refusal>
    requires { A.geometry list.old ≡ geometry.now }
{
    match format(alloc, disk, *geometry) {
        Ok(tm) => {
            let mut trees = TreeMapping::new(tm, Mb::new(geometry.fixed_part()));
            first_difference(list, &mut trees, disk, geometry, 2000)
        }
        Err(refusal) => Err(refusal),
    }
}

/// The same where the list has nothing either.
fn first_difference_on(alloc: Global, disk: &mut MemDisk) -> Result<Option<u32>, Refusal> {
    let geometry = Geometry::new(128, 16, 2048, 40)?;
    match ListMapping::new(alloc, geometry, 16, geometry.virtual_blocks()) {
        Ok(mut list) => first_difference_to(alloc, &mut list, disk, &geometry),
        Err(_) => Err(Refusal::Memory),
    }
}

/// The sectors of its image.
const SECTORS: u64 = 8 * 2048 + 128 * 40;

#[test]
fn two_thousand_commands(rt: HostRuntime) {
    let difference = told_of_disk(rt.alloc(), SECTORS, first_difference_on);
    assert_eq!(rt; difference, Ok(None));
}

/// The free metadata blocks and the disk's calls so far: after a volume was made and kept, and after each of three
/// virtual blocks got a data block.
fn counted_on<M: Mapping>(
    mapping: &mut M,
    disk: &mut MemDisk,
    geometry: &Geometry,
    device: DevId,
) -> Result<[(u32, u64); 4], Refusal>
    requires { M.geometry mapping.old ≡ geometry.now }
{
    add(mapping, disk, geometry, device, None)?;
    mapping.keep();
    let kept = (mapping.free_metadata(), disk.calls());
    map(mapping, disk, geometry, device, Vb::new(5))?;
    let first = (mapping.free_metadata(), disk.calls());
    map(mapping, disk, geometry, device, Vb::new(2))?;
    let second = (mapping.free_metadata(), disk.calls());
    map(mapping, disk, geometry, device, Vb::new(5))?;
    let third = (mapping.free_metadata(), disk.calls());
    Ok([kept, first, second, third])
}

/// The same of trees.
fn counted_in_trees(alloc: Global, disk: &mut MemDisk) -> Result<[(u32, u64); 4], Refusal> {
    let geometry = Geometry::new(128, 16, 2048, 40)?;
    match format(alloc, disk, geometry) {
        Ok(tm) => {
            let mut trees = TreeMapping::new(tm, Mb::new(geometry.fixed_part()));
            counted_on(&mut trees, disk, &geometry, DevId::new(9))
        }
        Err(refusal) => Err(refusal),
    }
}

/// The first change after a commit takes a block for the device leaf and one for the volume's leaf, and later ones none.
#[test]
fn a_volume_is_changed_where_it_stands(rt: HostRuntime) {
    let counted = told_of_disk(rt.alloc(), SECTORS, counted_in_trees);
    assert_eq!(rt;
        counted,
        Ok([(2038, 16), (2036, 25), (2036, 34), (2036, 43)])
    );
}
