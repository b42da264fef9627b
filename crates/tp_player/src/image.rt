//! Changes of images, and what `open` and `check` return for an image.

use crate::disk::ScriptDisk;
use std::alloc::Global;
use tp_check::check;
use tp_disk::{Disk, Fault};
use tp_meta::Meta;
use tp_model::Refusal;
use tp_script::{Answer, Buffer, Caller, ImageChange, SECTOR, add_answer, add_hex_of, answer_of};

/// Metadata blocks are below this number. Each has 4,096 bytes.
const BLOCKS: u64 = 65_536;

/// Returns the bytes of a metadata block.
fn block_at(disk: &mut ScriptDisk, block: u64) -> Result<[u8; 4096], Fault> {
    let mut bytes = [0; 4096];
    if block >= BLOCKS || disk.sectors() < 8 * block + 8 {
        return Err(Fault);
    }
    disk.read(8 * block, &mut bytes)?;
    Ok(bytes)
}

fn put_block(disk: &mut ScriptDisk, block: u64, bytes: &[u8; 4096]) -> Result<(), Fault> {
    if block >= BLOCKS || disk.sectors() < 8 * block + 8 {
        return Err(Fault);
    }
    disk.write(8 * block, bytes)?;
    disk.flush()
}

/// Changes a byte of a metadata block: leaves the bits `keep`, then flips the bits `flip`. Returns
/// the byte that was there.
fn change_byte(
    disk: &mut ScriptDisk,
    block: u64,
    place: u64,
    keep: u8,
    flip: u8,
) -> Result<u8, Fault> {
    if block >= BLOCKS || place >= 4096 || disk.sectors() < 8 * block + 8 {
        return Err(Fault);
    }
    let sector = 8 * block + place / 512;
    let place = (place % 512) as usize;
    let mut bytes = [0; SECTOR];
    disk.read(sector, &mut bytes)?;
    let old = bytes[place];
    bytes[place] = (old & keep) ^ flip;
    disk.write(sector, &bytes)?;
    disk.flush()?;
    Ok(old)
}

/// Sets a byte of a metadata block, and returns the byte that was there.
fn set_byte(disk: &mut ScriptDisk, change: [u64; 3]) -> Result<u8, Fault> {
    let [block, place, value] = change;
    change_byte(disk, block, place, 0, (value % 256) as u8)
}

/// Flips bits of a byte of a metadata block.
pub(crate) fn flip_byte(
    disk: &mut ScriptDisk,
    block: u64,
    place: u64,
    bits: u64,
) -> Result<(), Fault> {
    change_byte(disk, block, place, 255, (bits % 256) as u8)?;
    Ok(())
}

/// Puts the number of four bytes at a place, if there are four.
fn put_u32(bytes: &mut [u8; 4096], place: usize, value: u64) {
    if place <= 4092 {
        let value = (value % 4_294_967_296) as u32;
        bytes[place..place + 4].copy_from_slice(&value.to_le_bytes());
    }
}

/// Puts the number of eight bytes at a place, if there are eight.
fn put_u64(bytes: &mut [u8; 4096], place: usize, value: u64) {
    if place <= 4088 {
        bytes[place..place + 8].copy_from_slice(&value.to_le_bytes());
    }
}

/// Sets a number of four bytes, or of eight.
fn set_number(disk: &mut ScriptDisk, change: [u64; 3], is_long: bool) -> Result<(), Fault> {
    let [block, place, value] = change;
    let place = (place % 4096) as usize;
    let mut bytes = block_at(disk, block)?;
    if is_long {
        put_u64(&mut bytes, place, value);
    } else {
        put_u32(&mut bytes, place, value);
    }
    put_block(disk, block, &bytes)
}

/// Sets each number of four bytes of a block.
fn fill_u32(disk: &mut ScriptDisk, block: u64, value: u64) -> Result<(), Fault> {
    let mut bytes = [0; 4096];
    for number in 0..1024usize {
        put_u32(&mut bytes, 4 * number, value);
    }
    put_block(disk, block, &bytes)
}

fn swap_blocks(disk: &mut ScriptDisk, one: u64, other: u64) -> Result<(), Fault> {
    let first = block_at(disk, one)?;
    copy_block(disk, other, one)?;
    put_block(disk, other, &first)
}

fn copy_block(disk: &mut ScriptDisk, from: u64, to: u64) -> Result<(), Fault> {
    let bytes = block_at(disk, from)?;
    put_block(disk, to, &bytes)
}

/// Returns the bytes of an entry of a node. Only a leaf of devices has entries of 32.
fn entry_width(kind: u64, level: u64) -> usize {
    if kind == 1 && level == 0 { 32 } else { 16 }
}

/// Puts entries with rising keys and values into a node.
fn put_entries(bytes: &mut [u8; 4096], width: usize, entries: u64, first: [u64; 4]) {
    let [key, key_step, value, value_step] = first;
    for number in 0..entries.min(252) {
        let place = width.wrapping_mul(number as usize).wrapping_add(64);
        put_u64(
            bytes,
            place,
            key.wrapping_add(key_step.wrapping_mul(number)),
        );
        put_u64(
            bytes,
            place.wrapping_add(8),
            value.wrapping_add(value_step.wrapping_mul(number)),
        );
    }
}

fn put_node(disk: &mut ScriptDisk, node: [u64; 8]) -> Result<(), Fault> {
    let [
        block,
        kind,
        level,
        entries,
        key,
        key_step,
        value,
        value_step,
    ] = node;
    let mut bytes = [0; 4096];
    put_u32(&mut bytes, 0, kind);
    put_u32(&mut bytes, 4, level);
    put_u64(&mut bytes, 8, block);
    put_u32(&mut bytes, 16, entries);
    let first = [key, key_step, value, value_step];
    put_entries(&mut bytes, entry_width(kind, level), entries, first);
    put_block(disk, block, &bytes)
}

/// Changes metadata blocks.
pub(crate) fn change_image(disk: &mut ScriptDisk, change: &ImageChange) -> Result<(), Fault> {
    match *change {
        ImageChange::Byte(change) => match set_byte(disk, change) {
            Ok(_) => Ok(()),
            Err(fault) => Err(fault),
        },
        ImageChange::U32(change) => set_number(disk, change, false),
        ImageChange::U64(change) => set_number(disk, change, true),
        ImageChange::FillU32(block, value) => fill_u32(disk, block, value),
        ImageChange::Swap(one, other) => swap_blocks(disk, one, other),
        ImageChange::Copy(from, to) => copy_block(disk, from, to),
        ImageChange::Node(node) => put_node(disk, node),
    }
}

/// Reports bytes of a metadata block, at most 512. Returns whether the block has them.
pub(crate) fn report_bytes(disk: &mut ScriptDisk, part: [u64; 3], report: &mut Buffer) -> bool {
    let [block, place, count] = part;
    let Ok(bytes) = block_at(disk, block) else {
        return false;
    };
    let first = usize::try_from(place).unwrap_or(usize::MAX);
    let count = usize::try_from(count).unwrap_or(0).min(SECTOR);
    match bytes.get(first..).unwrap_or(&[]).get(..count) {
        Some(part) => {
            add_hex_of(report, part);
            true
        }
        None => false,
    }
}

fn open_result(alloc: Global, disk: &mut ScriptDisk) -> Result<(), Refusal> {
    match Meta::open(alloc, disk) {
        Ok(_) => Ok(()),
        Err(refusal) => Err(refusal),
    }
}

fn check_result(alloc: Global, disk: &mut ScriptDisk) -> Result<(), Refusal> {
    match check(alloc, disk) {
        Ok(()) => Ok(()),
        Err(error) => Err(error.refusal()),
    }
}

/// Reports what `open` and `check` return with another byte, which is put back. Returns whether the
/// image has that byte.
pub(crate) fn report_byte(
    alloc: Global,
    disk: &mut ScriptDisk,
    change: [u64; 3],
    report: &mut Buffer,
) -> bool {
    let [block, place, _] = change;
    let Ok(old) = set_byte(disk, change) else {
        return false;
    };
    let opened = open_result(alloc, disk);
    let checked = check_result(alloc, disk);
    report.add(b"open ");
    add_answer(report, answer_of(opened, Caller::Pool), b"");
    report.add(b", check ");
    add_answer(report, answer_of(checked, Caller::Pool), b"");
    set_byte(disk, [block, place, old as u64]).is_ok()
}

/// Returns what a check of a disk finds.
pub(crate) fn check_answer(alloc: Global, disk: &mut ScriptDisk) -> Answer {
    answer_of(check_result(alloc, disk), Caller::Pool)
}
