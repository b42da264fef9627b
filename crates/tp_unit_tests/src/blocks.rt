ghost use Rattle.std.specs.Prelude.{◌≡◌, ◌<◌, ◌≤◌, OnOk, length};
ghost use Rattle.tp_model.specs.Geometry.{sectors_of_image};

use std::alloc::Global;
use tp_blocks::Blocks;
use tp_disk::{Disk, Fault, MemDisk};
use tp_model::{Geometry, Pb};

/// The sectors of the pool of all tests here, which has four data blocks.
const SECTORS: u64 = 16_896;

const BLOCK: usize = 128 * 512;

/// The bytes at five places, `None` behind the end.
fn bytes_at(bytes: &[u8], places: &[usize; 5]) -> [Option<u8>; 5] {
    let mut found = [None; 5];
    for i in 0..5 {
        found[i] = bytes.get(places[i]).copied();
    }
    found
}

/// The bytes at five places of a block, `None` behind its end.
fn read_at<D: Disk>(
    alloc: Global,
    disk: &mut D,
    blocks: &Blocks,
    block: Pb,
    places: &[usize; 5],
) -> Result<[Option<u8>; 5], Fault>
    requires disk { sectors_of_image blocks.now ≤ (D.state disk.old).size }
    requires block { block < blocks.now.data_blocks }
    requires size { blocks.now.block_sectors ≡ 128 }
    ensures { OnOk result ((D.state disk.new).size ≡ (D.state disk.old).size) }
{
    let Ok(mut out) = Vec::from_elem(alloc, 1, BLOCK) else {
        return Err(Fault);
    };
    match blocks.read(disk, block, 0, &mut out) {
        Ok(()) => Ok(bytes_at(&out, places)),
        Err(Fault) => Err(Fault),
    }
}

/// Fills a block, copies it into another one with other bytes, and writes a sector of the first in place.
fn fill_both<D: Disk>(disk: &mut D, blocks: &mut Blocks, first: Pb, second: Pb) -> Result<(), Fault>
    requires disk { sectors_of_image blocks.old ≤ (D.state disk.old).size }
    requires first { first < blocks.old.data_blocks }
    requires second { second < blocks.old.data_blocks }
    requires size { blocks.old.block_sectors ≡ 128 }
    ensures disk { OnOk result ((D.state disk.new).size ≡ (D.state disk.old).size) }
    ensures geometry { blocks.new ≡ blocks.old }
{
    blocks.write_part(disk, second, 0, &[9; 512])?;
    blocks.fill(disk, first, 3, &[5; 1024], None)?;
    blocks.fill(disk, second, 4, &[6; 512], Some(first))?;
    blocks.write_part(disk, first, 127, &[7; 512])
}

/// The bytes at five places of each of two blocks.
type Both = ([Option<u8>; 5], [Option<u8>; 5]);

/// The bytes at five places of each of both.
fn filled_and_read<D: Disk>(alloc: Global, disk: &mut D, blocks: &mut Blocks) -> Result<Both, Fault>
    requires disk { sectors_of_image blocks.old ≤ (D.state disk.old).size }
    requires size { blocks.old.block_sectors ≡ 128 }
    requires blocks { blocks.old.data_blocks ≡ 4 }
    ensures disk { OnOk result ((D.state disk.new).size ≡ (D.state disk.old).size) }
    ensures geometry { blocks.new ≡ blocks.old }
{
    let (first, second) = (Pb::new(1), Pb::new(3));
    fill_both(disk, blocks, first, second)?;
    let places = [0, 3 * 512, 5 * 512 - 1, 5 * 512, 127 * 512];
    let of_first = read_at(alloc, disk, blocks, first, &places)?;
    let places = [0, 3 * 512, 4 * 512, 5 * 512, 127 * 512];
    Ok((of_first, read_at(alloc, disk, blocks, second, &places)?))
}

/// Fills the middle block of three, then writes a run that begins in it and ends in the last one.
fn write_over<D: Disk>(disk: &mut D, blocks: &mut Blocks, bytes: &[u8]) -> Result<(), Fault>
    requires disk { sectors_of_image blocks.old ≤ (D.state disk.old).size }
    requires bytes { length bytes.now ≡ 65536 }
    requires size { blocks.old.block_sectors ≡ 128 }
    requires blocks { blocks.old.data_blocks ≡ 4 }
    ensures disk { OnOk result ((D.state disk.new).size ≡ (D.state disk.old).size) }
    ensures geometry { blocks.new ≡ blocks.old }
{
    blocks.fill(disk, Pb::new(1), 0, bytes, None)?;
    blocks.write_part(disk, Pb::new(1), 127, &[8; 1024])
}

/// The bytes at five places of a run of three blocks from block 1 on, `None` behind its end.
fn read_over<D: Disk>(
    alloc: Global,
    disk: &mut D,
    blocks: &Blocks,
    places: &[usize; 5],
) -> Result<[Option<u8>; 5], Fault>
    requires disk { sectors_of_image blocks.now ≤ (D.state disk.old).size }
    requires size { blocks.now.block_sectors ≡ 128 }
    requires blocks { blocks.now.data_blocks ≡ 4 }
{
    let Ok(mut out) = Vec::from_elem(alloc, 1, 3 * BLOCK) else {
        return Err(Fault);
    };
    match blocks.read(disk, Pb::new(1), 0, &mut out) {
        Ok(()) => Ok(bytes_at(&out, places)),
        Err(Fault) => Err(Fault),
    }
}

/// The same behind the writes.
fn written_and_read<D: Disk>(
    alloc: Global,
    disk: &mut D,
    blocks: &mut Blocks,
) -> Result<[Option<u8>; 5], Fault>
    requires disk { sectors_of_image blocks.old ≤ (D.state disk.old).size }
    requires size { blocks.old.block_sectors ≡ 128 }
    requires blocks { blocks.old.data_blocks ≡ 4 }
{
    let Ok(bytes) = Vec::from_elem(alloc, 8, BLOCK) else {
        return Err(Fault);
    };
    let places = [0, BLOCK - 1, BLOCK + 511, BLOCK + 512, 3 * BLOCK];
    match write_over(disk, blocks, &bytes) {
        Ok(()) => read_over(alloc, disk, blocks, &places),
        Err(Fault) => Err(Fault),
    }
}

/// Both of new blocks.
fn told_on<D: Disk>(alloc: Global, disk: &mut D) -> Result<(Both, [Option<u8>; 5]), Fault> {
    let Ok(geometry) = Geometry::new(128, 16, 2048, 4) else {
        return Err(Fault);
    };
    if disk.sectors() < geometry.image_sectors() {
        return Err(Fault);
    }
    let Ok(mut blocks) = Blocks::new(alloc, geometry) else {
        return Err(Fault);
    };
    let both = filled_and_read(alloc, disk, &mut blocks)?;
    Ok((both, written_and_read(alloc, disk, &mut blocks)?))
}

/// The same of a new disk.
fn told_of_new(alloc: Global) -> Result<(Both, [Option<u8>; 5]), Fault> {
    match MemDisk::new(alloc, SECTORS) {
        Ok(mut disk) => told_on(alloc, &mut disk),
        Err(_) => Err(Fault),
    }
}

#[test]
fn blocks_are_filled_written_and_read(rt: HostRuntime) {
    let first = [Some(0), Some(5), Some(5), Some(0), Some(7)];
    let second = [Some(0), Some(5), Some(6), Some(0), Some(0)];
    let over = [Some(8), Some(8), Some(8), Some(0), None];
    assert!(rt; told_of_new(rt.alloc()) == Ok(((first, second), over)));
}
