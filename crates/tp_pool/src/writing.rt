//! Ranges of sectors of a volume are written part by part.
//!
//! A block whose data block no other slot has, now or at the last commit, is written in place, in one call with those behind it that are
//! written so too and follow it on the disk. Any other one gets a new data block, which is written whole: in one call with those behind it that lie
//! wholly in the range too and follow it on the disk, or by itself with what stood in the old one, or zeros, where the range has no sector.
ghost use Rattle.std.specs.Prelude.{◌≡◌, ◌+◌, ◌-◌, ◌*◌, ◌/◌, ◌%◌, ◌<◌, ◌≤◌, ℕ, length, Err, IfErr, IfOk, IfSome, IsSome, None, OnOk, Some, drop, is_err, take, false, true};
ghost use Rattle.tp_model.specs.Geometry.{data_sector, sectors_of_image};
ghost use Rattle.tp_model.specs.Sectors.{sectors_of};
ghost use Rattle.tp_model.specs.Pool.{PlainPool};
ghost use Rattle.tp_counts.specs.StoreErrors.{is_fault};
ghost use Rattle.tp_model.specs.Disk.{FaultHasCause, Writes, after_write, seen};
ghost use Rattle.tp_model.specs.DiskStops.{LeavesOnly};
ghost use Rattle.tp_sharing.specs.Volumes.{device_of, slot_of};
ghost use Rattle.tp_mapping.specs.Mapping.{free_places};
ghost use Rattle.tp_stored.specs.Contents.{Contents, HasContents};
ghost use Rattle.tp_shown.specs.Shown.{blocks_touched};
ghost use Rattle.tp_meta.specs.Metadata.{AreInside, AreTold, IsChanging, IsInside, Ran};
ghost use Rattle.tp_pool.specs.Held.{most_sectors};
ghost use Rattle.tp_pool.specs.AtMetadata.{HasFree, HasWritten, HasWrittenPart, LeavesHalf, Mapped};
ghost use Rattle.tp_pool.specs.Writing.{own_place, old_place, AreInBlocks, HasBlock, IsHalfWritten, IsKnown, Reaches, blocks_taken, told_taken};

use crate::sectors::{SECTOR, block_of, index_of, part_of};
use crate::together::{blocks_together, old_place, own_place};
use tp_blocks::Blocks;
use tp_counts::StoreError;
use tp_disk::{Disk, Fault};
use tp_meta::{Home, Metadata};
use tp_model::{DevId, Pb, Vb};

/// Maps a virtual block to the least free data block.
fn map_new<D: Disk, M: Metadata>(
    disk: &mut D,
    metadata: &mut M,
    id: DevId,
    block: Vb,
) -> Result<Pb, StoreError>
    requires disk { sectors_of_image (M.geometry metadata.old) ≤ (D.state disk.old).size }
    requires room { 16 ≤ M.room metadata.old }
    ensures mapped { IfOk result (λ place. (now kept : Contents) → M.stands metadata.old (D.state disk.old) now kept → HasBlock (M.geometry metadata.old) id block now.volumes
        → Mapped M.Metadata id block place metadata.old metadata.new (D.state disk.new) now kept) }
    ensures inside { IfOk result (λ place. place < (M.geometry metadata.old).data_blocks) }
    ensures changing { (now kept : Contents) → M.stands metadata.old (D.state disk.old) now kept → IsChanging (M.geometry metadata.old) kept (D.state disk.old) (D.state disk.new) }
    ensures damaged { result ≡ Err StoreError.Damaged → (now kept : Contents) → M.stands metadata.old (D.state disk.old) now kept → HasBlock (M.geometry metadata.old) id block now.volumes
        → 0 < free_places (M.geometry metadata.old) now.volumes kept.volumes → ⊥ }
    ensures ran { Ran 16 (is_fault result) (M.room metadata.old) (M.room metadata.new) (M.geometry metadata.old) (M.geometry metadata.new) (D.state disk.old) (D.state disk.new) }
{
    match metadata.map(disk, id, block)? {
        Some(place) => Ok(place),
        None => Err(StoreError::Damaged),
    }
}

/// Writes sectors of one block to a new data block.
fn put_new<D: Disk, M: Metadata>(
    disk: &mut D,
    metadata: &mut M,
    blocks: &mut Blocks,
    id: DevId,
    sector: u64,
    bytes: &[u8],
    from: Option<Pb>,
) -> Result<(), StoreError>
    requires blocks { blocks.old ≡ M.geometry metadata.old }
    requires disk { sectors_of_image (M.geometry metadata.old) ≤ (D.state disk.old).size }
    requires whole { length bytes.now % 512 ≡ 0 }
    requires some { 0 < length bytes.now / 512 }
    requires inside { sector % (M.geometry metadata.old).block_sectors + length bytes.now / 512 ≤ (M.geometry metadata.old).block_sectors }
    requires within { sector < most_sectors (M.geometry metadata.old) }
    requires from { IfSome from (λ place. place < (M.geometry metadata.old).data_blocks) }
    requires room { 16 ≤ M.room metadata.old }
    ensures written { OnOk result ((now kept : Contents) → M.stands metadata.old (D.state disk.old) now kept → Reaches (M.geometry metadata.old) id (sector + length (sectors_of bytes.now)) now.volumes
        → from ≡ slot_of id (sector / (M.geometry metadata.old).block_sectors) now.volumes
        → HasWrittenPart M.Metadata id (sector / (M.geometry metadata.old).block_sectors) 1 sector (sectors_of bytes.now) true metadata.old metadata.new (D.state disk.old) (D.state disk.new) now kept) }
    ensures left { LeavesHalf M.Metadata id sector (sectors_of bytes.now) metadata.old (D.state disk.old) (D.state disk.new) }
    ensures damaged { result ≡ Err StoreError.Damaged → (now kept : Contents) → M.stands metadata.old (D.state disk.old) now kept → Reaches (M.geometry metadata.old) id (sector + length (sectors_of bytes.now)) now.volumes
        → 0 < free_places (M.geometry metadata.old) now.volumes kept.volumes → ⊥ }
    ensures ran { Ran 16 (is_fault result) (M.room metadata.old) (M.room metadata.new) (M.geometry metadata.old) (M.geometry metadata.new) (D.state disk.old) (D.state disk.new) }
    ensures blocks { blocks.new ≡ blocks.old }
{
    let geometry = metadata.geometry();
    let offset = sector % geometry.block_sectors() as u64;
    let place = map_new(disk, metadata, id, block_of(&geometry, sector))?;
    match blocks.fill(disk, place, offset, bytes, from) {
        Ok(()) => Ok(()),
        Err(Fault) => Err(StoreError::Fault),
    }
}

/// Writes sectors in place, to a data block and those behind it.
fn put_in_place<D: Disk>(
    disk: &mut D,
    blocks: &Blocks,
    place: Pb,
    offset: u64,
    bytes: &[u8],
) -> Result<(), StoreError>
    requires disk { sectors_of_image blocks.now ≤ (D.state disk.old).size }
    requires block { place < blocks.now.data_blocks }
    requires whole { length bytes.now % 512 ≡ 0 }
    requires inside { place * blocks.now.block_sectors + offset + length bytes.now / 512 ≤ blocks.now.data_blocks * blocks.now.block_sectors }
    ensures any { Writes (data_sector blocks.now place + offset) (sectors_of bytes.now) (D.state disk.old) (D.state disk.new) }
    ensures ok { OnOk result (D.state disk.new ≡ after_write (data_sector blocks.now place + offset) (sectors_of bytes.now) (D.state disk.old)) }
    ensures only { IfErr result (λ error. error ≡ StoreError.Fault) }
    ensures cause { FaultHasCause (is_err result) (D.state disk.old) (D.state disk.new) }
{
    match blocks.write_part(disk, place, offset, bytes) {
        Ok(()) => Ok(()),
        Err(Fault) => Err(StoreError::Fault),
    }
}

/// Writes the sectors of these bytes from one on and up to another one, to a data block and those behind it.
fn put_run<D: Disk>(
    disk: &mut D,
    blocks: &Blocks,
    place: Pb,
    bytes: &[u8],
    from: u64,
    to: u64,
) -> Result<(), StoreError>
    requires disk { sectors_of_image blocks.now ≤ (D.state disk.old).size }
    requires block { place < blocks.now.data_blocks }
    requires run { from ≤ to }
    requires whole { length bytes.now % 512 ≡ 0 }
    requires bytes { to ≤ length bytes.now / 512 }
    requires most { length bytes.now / 512 ≤ 2048 }
    requires inside { place * blocks.now.block_sectors + (to - from) ≤ blocks.now.data_blocks * blocks.now.block_sectors }
    ensures any { Writes (data_sector blocks.now place) (take (to - from) (drop from (sectors_of bytes.now))) (D.state disk.old) (D.state disk.new) }
    ensures ok { OnOk result (D.state disk.new ≡ after_write (data_sector blocks.now place) (take (to - from) (drop from (sectors_of bytes.now))) (D.state disk.old)) }
    ensures only { IfErr result (λ error. error ≡ StoreError.Fault) }
    ensures cause { FaultHasCause (is_err result) (D.state disk.old) (D.state disk.new) }
{
    let from = (SECTOR * from) as usize;
    let to = (SECTOR * to) as usize;
    put_in_place(disk, blocks, place, 0, &bytes[from..to])
}

/// Writes whole blocks of a volume to new data blocks, in one call of the disk those that follow one another there. For each block it takes 16
/// metadata blocks at most.
///
/// A block is mapped before its data is written: the last commit names none of these data blocks, so a stop in between leaves nothing of them.
fn put_new_run<D: Disk, M: Metadata>(
    disk: &mut D,
    metadata: &mut M,
    blocks: &Blocks,
    id: DevId,
    sector: u64,
    bytes: &[u8],
) -> Result<(), StoreError>
    requires blocks { blocks.now ≡ M.geometry metadata.old }
    requires disk { sectors_of_image (M.geometry metadata.old) ≤ (D.state disk.old).size }
    requires whole { length bytes.now % 512 ≡ 0 }
    requires some { 0 < length bytes.now / 512 }
    requires most { length bytes.now / 512 ≤ 2048 }
    requires starts { sector % (M.geometry metadata.old).block_sectors ≡ 0 }
    requires ends { length bytes.now / 512 % (M.geometry metadata.old).block_sectors ≡ 0 }
    requires within { sector + length bytes.now / 512 ≤ most_sectors (M.geometry metadata.old) }
    requires room { 16 * (length bytes.now / 512 / (M.geometry metadata.old).block_sectors) ≤ M.room metadata.old }
    ensures written { OnOk result ((now kept : Contents) → M.stands metadata.old (D.state disk.old) now kept → Reaches (M.geometry metadata.old) id (sector + length (sectors_of bytes.now)) now.volumes
        → HasWrittenPart M.Metadata id (sector / (M.geometry metadata.old).block_sectors) (length bytes.now / 512 / (M.geometry metadata.old).block_sectors) sector (sectors_of bytes.now) true
        metadata.old metadata.new (D.state disk.old) (D.state disk.new) now kept) }
    ensures left { LeavesHalf M.Metadata id sector (sectors_of bytes.now) metadata.old (D.state disk.old) (D.state disk.new) }
    ensures damaged { result ≡ Err StoreError.Damaged → (now kept : Contents) → M.stands metadata.old (D.state disk.old) now kept → Reaches (M.geometry metadata.old) id (sector + length (sectors_of bytes.now)) now.volumes
        → length bytes.now / 512 / (M.geometry metadata.old).block_sectors ≤ free_places (M.geometry metadata.old) now.volumes kept.volumes → ⊥ }
    ensures ran { Ran (16 * (length bytes.now / 512 / (M.geometry metadata.old).block_sectors)) (is_fault result) (M.room metadata.old) (M.room metadata.new) (M.geometry metadata.old) (M.geometry metadata.new) (D.state disk.old) (D.state disk.new) }
{
    let geometry = metadata.geometry();
    let block_sectors = geometry.block_sectors() as u64;
    let first = block_of(&geometry, sector).number();
    let count = bytes.len() as u64 / SECTOR / block_sectors;
    let mut start = map_new(disk, metadata, id, Vb::new(first))?;
    let mut written = 0;
    let mut mapped = 1;
    while mapped < count {
        let place = map_new(disk, metadata, id, Vb::new(first + mapped as u32))?;
        if place.number() as u64 != start.number() as u64 + (mapped - written) {
            let from = block_sectors * written;
            let to = block_sectors * mapped;
            put_run(disk, blocks, start, bytes, from, to)?;
            start = place;
            written = mapped;
        }
        mapped += 1;
    }
    let from = block_sectors * written;
    let to = block_sectors * count;
    put_run(disk, blocks, start, bytes, from, to)
}

/// Writes sectors of a volume, of which the first block stands there: in place, or to new data blocks where they are of one block or are whole
/// blocks. For each block it takes 16 metadata blocks at most.
pub(crate) fn put_part<D: Disk, M: Metadata>(
    disk: &mut D,
    metadata: &mut M,
    blocks: &mut Blocks,
    id: DevId,
    sector: u64,
    bytes: &[u8],
    home: Option<Home>,
) -> Result<(), StoreError>
    requires blocks { blocks.old ≡ M.geometry metadata.old }
    requires disk { sectors_of_image (M.geometry metadata.old) ≤ (D.state disk.old).size }
    requires whole { length bytes.now % 512 ≡ 0 }
    requires some { 0 < length bytes.now / 512 }
    requires most { length bytes.now / 512 ≤ 2048 }
    requires alone { own_place home ≡ None → AreInBlocks (M.geometry metadata.old) sector (length bytes.now / 512) }
    requires inside { (place : ℕ) → own_place home ≡ Some place
        → place * (M.geometry metadata.old).block_sectors + sector % (M.geometry metadata.old).block_sectors + length bytes.now / 512 ≤ (M.geometry metadata.old).data_blocks * (M.geometry metadata.old).block_sectors }
    requires within { sector + length bytes.now / 512 ≤ most_sectors (M.geometry metadata.old) }
    requires place { IsInside (M.geometry metadata.old).data_blocks home }
    requires room { 16 * blocks_touched (M.geometry metadata.old) sector (length bytes.now / 512) ≤ M.room metadata.old }
    ensures written { OnOk result ((now kept : Contents) → M.stands metadata.old (D.state disk.old) now kept → Reaches (M.geometry metadata.old) id (sector + length (sectors_of bytes.now)) now.volumes
        → IsKnown (M.geometry metadata.old) id sector (length bytes.now / 512) now.volumes (M.marks metadata.old) home
        → HasWrittenPart M.Metadata id (sector / (M.geometry metadata.old).block_sectors) (blocks_touched (M.geometry metadata.old) sector (length bytes.now / 512)) sector (sectors_of bytes.now) (told_taken home) metadata.old metadata.new (D.state disk.old) (D.state disk.new) now kept) }
    ensures left { (now kept : Contents) → M.stands metadata.old (D.state disk.old) now kept → Reaches (M.geometry metadata.old) id (sector + length (sectors_of bytes.now)) now.volumes
        → IsKnown (M.geometry metadata.old) id sector (length bytes.now / 512) now.volumes (M.marks metadata.old) home
        → LeavesOnly (D.state disk.old) (D.state disk.new) (IsHalfWritten (M.geometry metadata.old) id sector (sectors_of bytes.now) kept (D.state disk.old).cells) }
    ensures damaged { result ≡ Err StoreError.Damaged → (now kept : Contents) → M.stands metadata.old (D.state disk.old) now kept → Reaches (M.geometry metadata.old) id (sector + length (sectors_of bytes.now)) now.volumes
        → (told_taken home ≡ true → blocks_touched (M.geometry metadata.old) sector (length bytes.now / 512) ≤ free_places (M.geometry metadata.old) now.volumes kept.volumes) → ⊥ }
    ensures still { told_taken home ≡ false → metadata.new ≡ metadata.old }
    ensures ran { Ran (16 * blocks_touched (M.geometry metadata.old) sector (length bytes.now / 512)) (is_fault result) (M.room metadata.old) (M.room metadata.new) (M.geometry metadata.old) (M.geometry metadata.new) (D.state disk.old) (D.state disk.new) }
    ensures blocks { blocks.new ≡ blocks.old }
{
    let geometry = metadata.geometry();
    let block_sectors = geometry.block_sectors() as u64;
    let offset = sector % block_sectors;
    match own_place(&home) {
        Some(place) => match blocks.write_part(disk, place, offset, bytes) {
            Ok(()) => Ok(()),
            Err(Fault) => Err(StoreError::Fault),
        },
        None => {
            if offset + bytes.len() as u64 / SECTOR > block_sectors {
                return put_new_run(disk, metadata, blocks, id, sector, bytes);
            }
            put_new(disk, metadata, blocks, id, sector, bytes, old_place(&home))
        }
    }
}

/// Writes sectors of a volume from this one on, 2048 at most, of which the blocks stand there. For each block it takes 16 metadata blocks at most.
pub(crate) fn put_blocks<D: Disk, M: Metadata>(
    disk: &mut D,
    metadata: &mut M,
    blocks: &mut Blocks,
    id: DevId,
    sector: u64,
    bytes: &[u8],
    homes: &[Option<Home>],
) -> Result<(), StoreError>
    requires blocks { blocks.old ≡ M.geometry metadata.old }
    requires disk { sectors_of_image (M.geometry metadata.old) ≤ (D.state disk.old).size }
    requires whole { length bytes.now % 512 ≡ 0 }
    requires some { 0 < length bytes.now / 512 }
    requires most { length bytes.now / 512 ≤ 2048 }
    requires few { length homes.now ≤ 17 }
    requires within { sector + length bytes.now / 512 ≤ most_sectors (M.geometry metadata.old) }
    requires homes { length homes.now ≡ blocks_touched (M.geometry metadata.old) sector (length bytes.now / 512) }
    requires told { (now kept : Contents) → M.stands metadata.old (D.state disk.old) now kept
        → AreTold id (sector / (M.geometry metadata.old).block_sectors) now.volumes (M.marks metadata.old) (length homes.now) homes.now }
    requires places { AreInside (M.geometry metadata.old).data_blocks (length homes.now) homes.now }
    requires room { 512 ≤ M.room metadata.old }
    ensures written { OnOk result ((now kept : Contents) (s : PlainPool) → M.stands metadata.old (D.state disk.old) now kept → Reaches (M.geometry metadata.old) id (sector + length (sectors_of bytes.now)) now.volumes
        → HasContents (M.geometry metadata.old) now (seen (D.state disk.old).cells) s
        → HasWritten M.Metadata id sector (sectors_of bytes.now) metadata.new (D.state disk.new) kept s) }
    ensures still { OnOk result ((now kept : Contents) → M.stands metadata.old (D.state disk.old) now kept → IsSome (device_of id now.volumes)
        → blocks_taken id now.volumes (M.marks metadata.old) (sector / (M.geometry metadata.old).block_sectors) (blocks_touched (M.geometry metadata.old) sector (length bytes.now / 512)) ≡ 0
        → metadata.new ≡ metadata.old) }
    ensures left { LeavesHalf M.Metadata id sector (sectors_of bytes.now) metadata.old (D.state disk.old) (D.state disk.new) }
    ensures damaged { result ≡ Err StoreError.Damaged → (now kept : Contents) → M.stands metadata.old (D.state disk.old) now kept → Reaches (M.geometry metadata.old) id (sector + length (sectors_of bytes.now)) now.volumes
        → HasFree M.Metadata id metadata.old now kept (sector / (M.geometry metadata.old).block_sectors) (blocks_touched (M.geometry metadata.old) sector (length bytes.now / 512)) → ⊥ }
    ensures ran { Ran 272 (is_fault result) (M.room metadata.old) (M.room metadata.new) (M.geometry metadata.old) (M.geometry metadata.new) (D.state disk.old) (D.state disk.new) }
    ensures blocks { blocks.new ≡ blocks.old }
{
    let geometry = metadata.geometry();
    let count = bytes.len() as u64 / SECTOR;
    let mut done = 0;
    while done < count {
        let index = index_of(&geometry, sector, sector + done);
        let run = blocks_together(&geometry, sector + done, count - done, homes, index);
        let part = part_of(&geometry, sector + done, count - done, run);
        let from = (SECTOR * done) as usize;
        let to = (SECTOR * (done + part)) as usize;
        put_part(
            disk,
            metadata,
            blocks,
            id,
            sector + done,
            &bytes[from..to],
            homes[index],
        )?;
        done += part;
    }
    Ok(())
}
