//! Commands of a player on images.

use crate::step::Printed;
use crate::verb::ImageVerb;
use std::alloc::{AllocError, Global};
use tp_disk::{Disk, MemDisk};
use tp_images::{Images, MemImages};

const SECTOR: usize = 512;

/// The disk of an image that another program has open.
#[derive(Drop)]
pub struct Held {
    pub disk: Option<MemDisk>,
}

/// Closes an image that was opened or made.
fn close_made(images: &mut MemImages, image: &str, disk: MemDisk) -> bool {
    images.close(image, disk);
    true
}

/// Makes an image of zeros.
fn make(images: &mut MemImages, image: &str, bytes: u64) -> bool {
    match images.create(image, bytes / 512) {
        Ok(disk) => close_made(images, image, disk),
        Err(_) => false,
    }
}

/// Reads one sector of a disk, if it has that sector.
fn read_sector(disk: &mut MemDisk, at: u64, sector: &mut [u8; 512]) -> bool {
    at < disk.sectors() && disk.read(at, sector).is_ok()
}

/// Writes one sector of a disk, if it has that sector.
fn write_sector(disk: &mut MemDisk, at: u64, sector: &[u8; 512]) -> bool {
    at < disk.sectors() && disk.write(at, sector).is_ok()
}

fn byte_of(disk: &mut MemDisk, place: u64) -> Option<u8> {
    let mut sector = [0; SECTOR];
    if !read_sector(disk, place / 512, &mut sector) {
        return None;
    }
    sector.get((place % 512) as usize).copied()
}

fn set_byte_of(disk: &mut MemDisk, place: u64, value: u8) -> bool {
    let mut sector = [0; SECTOR];
    if !read_sector(disk, place / 512, &mut sector) {
        return false;
    }
    sector[(place % 512) as usize] = value;
    write_sector(disk, place / 512, &sector)
}

fn byte_in(images: &mut MemImages, image: &str, place: u64) -> Option<u8> {
    match images.open(image) {
        Ok(mut disk) => {
            let byte = byte_of(&mut disk, place);
            images.close(image, disk);
            byte
        }
        Err(_) => None,
    }
}

fn set_byte(images: &mut MemImages, image: &str, place: u64, value: u8) -> bool {
    match images.open(image) {
        Ok(mut disk) => {
            let is_set = set_byte_of(&mut disk, place, value);
            images.close(image, disk);
            is_set
        }
        Err(_) => false,
    }
}

/// Returns the bytes of a disk, if it can be read.
fn bytes_of(alloc: Global, disk: &mut MemDisk) -> Result<Option<Vec<u8>>, AllocError> {
    let mut bytes = Vec::new(alloc);
    let mut sector = [0; SECTOR];
    for at in 0..disk.sectors() {
        if !read_sector(disk, at, &mut sector) {
            return Ok(None);
        }
        bytes.extend_from_slice(&sector)?;
    }
    Ok(Some(bytes))
}

/// Returns the bytes of an image, if it can be opened and read.
fn bytes_in(
    alloc: Global,
    images: &mut MemImages,
    image: &str,
) -> Result<Option<Vec<u8>>, AllocError> {
    match images.open(image) {
        Ok(mut disk) => {
            let bytes = bytes_of(alloc, &mut disk);
            images.close(image, disk);
            bytes
        }
        Err(_) => Ok(None),
    }
}

/// Returns the sector with this number of bytes that are an image.
fn sector_at(bytes: &[u8], at: u64) -> [u8; 512] {
    let mut sector = [0; SECTOR];
    let from = usize::try_from(at.saturating_mul(512)).unwrap_or(usize::MAX);
    let rest = bytes.get(from..).unwrap_or(&[]);
    for (place, byte) in sector.iter_mut().zip(rest.iter()) {
        *place = *byte;
    }
    sector
}

/// Writes bytes to a disk, sector by sector.
fn write_bytes(disk: &mut MemDisk, bytes: &[u8]) -> bool {
    for at in 0..disk.sectors() {
        let sector = sector_at(bytes, at);
        if !write_sector(disk, at, &sector) {
            return false;
        }
    }
    true
}

/// Makes an image with this size whose first bytes are these.
fn make_of(images: &mut MemImages, image: &str, size: u64, bytes: &[u8]) -> bool {
    match images.create(image, size / 512) {
        Ok(mut disk) => {
            let is_written = write_bytes(&mut disk, bytes);
            images.close(image, disk);
            is_written
        }
        Err(_) => false,
    }
}

fn truncate(
    alloc: Global,
    images: &mut MemImages,
    image: &str,
    size: u64,
) -> Result<bool, AllocError> {
    match bytes_in(alloc, images, image)? {
        Some(bytes) => Ok(make_of(images, image, size, &bytes)),
        None => Ok(false),
    }
}

fn copy(
    alloc: Global,
    images: &mut MemImages,
    image: &str,
    other: &str,
) -> Result<bool, AllocError> {
    match bytes_in(alloc, images, image)? {
        Some(bytes) => Ok(make_of(images, other, bytes.len() as u64, &bytes)),
        None => Ok(false),
    }
}

/// Returns whether two images have the same bytes.
fn compare(
    alloc: Global,
    images: &mut MemImages,
    image: &str,
    other: &str,
) -> Result<bool, AllocError> {
    let bytes = bytes_in(alloc, images, image)?;
    let others = bytes_in(alloc, images, other)?;
    match (bytes, others) {
        (Some(bytes), Some(others)) => Ok(bytes.as_slice() == others.as_slice()),
        _ => Ok(false),
    }
}

fn hold(images: &mut MemImages, image: &str, held: &mut Held) -> bool {
    match images.open(image) {
        Ok(disk) => {
            held.disk = Some(disk);
            true
        }
        Err(_) => false,
    }
}

fn release(images: &mut MemImages, image: &str, held: &mut Held) -> bool {
    match held.disk.take() {
        Some(disk) => close_made(images, image, disk),
        None => false,
    }
}

/// Leaves of an image the bytes that were flushed.
fn crash(alloc: Global, images: &mut MemImages, image: &str) -> Result<bool, AllocError> {
    let Some(bytes) = images.length(image) else {
        return Ok(false);
    };
    let sectors = usize::try_from(bytes / 512).unwrap_or(0);
    let picks = Vec::from_elem(alloc, 0u64, sectors)?;
    Ok(images.stop(image, &picks))
}

/// Runs a command that prints nothing. Returns whether it succeeds.
fn play_change(
    alloc: Global,
    images: &mut MemImages,
    held: &mut Held,
    image: &str,
    verb: &ImageVerb<'_>,
) -> Result<bool, AllocError> {
    match *verb {
        ImageVerb::MakeFile(bytes) => Ok(make(images, image, bytes)),
        ImageVerb::MakeDevice(bytes) => Ok(make(images, image, bytes) && images.fix(image)),
        ImageVerb::SetByte(place, value) => Ok(set_byte(images, image, place, value)),
        ImageVerb::Truncate(bytes) => truncate(alloc, images, image, bytes),
        ImageVerb::Copy(other) => copy(alloc, images, image, other),
        ImageVerb::Compare(other) => compare(alloc, images, image, other),
        ImageVerb::Hold => Ok(hold(images, image, held)),
        ImageVerb::Release => Ok(release(images, image, held)),
        ImageVerb::Fail(first, last) => Ok(images.fail(image, first, last)),
        ImageVerb::Crash => crash(alloc, images, image),
        ImageVerb::Size | ImageVerb::Byte(_) => Ok(false),
    }
}

/// Returns the number that a command prints, or `None` if it is not one that prints or it fails.
fn number_to_print(images: &mut MemImages, image: &str, verb: &ImageVerb<'_>) -> Option<u64> {
    match *verb {
        ImageVerb::Size => images.length(image),
        ImageVerb::Byte(place) => Some(byte_in(images, image, place)? as u64),
        _ => None,
    }
}

/// Runs a command on an image. A command that fails prints nothing and has the exit status 1.
pub fn play_image(
    alloc: Global,
    images: &mut MemImages,
    held: &mut Held,
    image: &str,
    verb: &ImageVerb<'_>,
) -> Result<Printed, AllocError> {
    let mut printed = Printed::nothing(alloc);
    if let Some(number) = number_to_print(images, image, verb) {
        let text = format!(in alloc; "{number}\n")?;
        printed.output.extend_from_slice(text.as_bytes())?;
        return Ok(printed);
    }
    if !play_change(alloc, images, held, image, verb)? {
        printed.status = 1;
    }
    Ok(printed)
}
