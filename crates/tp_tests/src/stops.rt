//! What a stop leaves of some sectors of two volumes, against plain arrays, with few places for changed blocks.

use crate::pools::{
    MemServed, byte_at, closed, flush, is_clean, opened, told_of_opened, with_new, with_volume,
    write,
};
use std::alloc::Global;
use std::test::Fail;
use tp_disk::{Disk, MemDisk};
use tp_model::{DevId, Geometry, Refusal};
use tp_served::Room;

/// The sectors that are looked at: of each of two volumes some in blocks of their own, and about the end of a block; and one in a block that no step writes to.
pub(crate) const PLACES: usize = 9;

pub(crate) fn volume_of(place: usize) -> DevId {
    DevId::new((place % 2) as u32)
}

pub(crate) fn sector_of(place: usize) -> u64 {
    [5, 127, 128, 300, 400][place / 2 % 5]
}

/// What the places have.
#[derive(Clone, Copy)]
pub(crate) struct Expected {
    pub(crate) now: [u8; PLACES],
    /// The values that a stop may leave, a bit each: the one of the last flush that was answered, and those written since.
    pub(crate) allowed: [u64; PLACES],
}

fn bit(value: u8) -> u64 {
    1u64 << (value % 64) as u32
}

impl Expected {
    pub(crate) fn keep(&mut self) {
        for place in 0..PLACES {
            self.allowed[place] = bit(self.now[place]);
        }
    }
}

/// Fills the sector of a place, and tells the arrays.
pub(crate) fn fill_place(
    pool: &mut MemServed,
    place: usize,
    value: u8,
    expected: &mut Expected,
) -> Result<(), Refusal> {
    let place = place % PLACES;
    expected.allowed[place] |= bit(value);
    write(pool, volume_of(place), sector_of(place), &[value; 512])?;
    expected.now[place] = value;
    Ok(())
}

/// Does the step of this number from random bits, and tells the arrays: a flush, or four times of five a write of a sector.
pub(crate) fn perform(
    pool: &mut MemServed,
    number: usize,
    bits: u64,
    expected: &mut Expected,
) -> Result<(), Refusal> {
    if (bits >> 50) % 5 == 0 {
        flush(pool)?;
        expected.keep();
        return Ok(());
    }
    let place = ((bits >> 40) % 8) as usize;
    fill_place(pool, place, (number % 63 + 1) as u8, expected)
}

/// A pool with volumes 0 and 1.
fn with_both(alloc: Global, geometry: Geometry, room: Room) -> Result<MemServed, Refusal> {
    with_new(with_volume(alloc, geometry, room)?, DevId::new(1))
}

/// A pool with two volumes, closed.
#[derive(Drop)]
pub(crate) struct Begin {
    room: Room,
    disk: MemDisk,
}

pub(crate) fn begun(alloc: Global, room: Room) -> Result<Begin, Refusal> {
    let geometry = Geometry::new(128, 4, 1032, 8)?;
    let disk = closed(with_both(alloc, geometry, room)?)?;
    Ok(Begin { room, disk })
}

/// A disk on which a pool was closed, or failed.
#[derive(Drop)]
pub(crate) struct Run {
    pub(crate) disk: MemDisk,
    pub(crate) expected: Expected,
}

/// Opens a copy of the pool on which this disk call fails.
pub(crate) fn opened_failing(alloc: Global, begin: &Begin, call: u64) -> Result<MemServed, Fail> {
    let mut disk = begin.disk.stop(alloc, &[])?;
    disk.fail(call, call);
    Ok(opened(alloc, disk, begin.room)?)
}

/// Which of the values since the last flush a stop leaves of a sector: by a number made from its own and this one; by 0 the oldest.
fn pick_of(seed: u64, sector: u64) -> u64 {
    let mixed = (sector ^ 0x5bd1_e995).wrapping_mul(6_364_136_223_846_793_005);
    (mixed.wrapping_mul(seed) >> 40) % 3
}

/// What a stop leaves, by this seed.
fn stopped(alloc: Global, disk: &MemDisk, seed: u64) -> Result<MemDisk, Fail> {
    let mut picks = Vec::new(alloc);
    for sector in 0..disk.sectors() {
        picks.push(pick_of(seed, sector))?;
    }
    Ok(disk.stop(alloc, &picks)?)
}

/// How many places read as one of the values that they may have.
fn places_left(pool: &mut MemServed, expected: &Expected) -> Result<u64, Refusal> {
    let mut count = 0u64;
    for place in 0..PLACES {
        let byte = byte_at(pool, volume_of(place), sector_of(place))?;
        let is_left = byte < 64 && expected.allowed[place] & bit(byte) != 0;
        count = count.wrapping_add(is_left as u64);
    }
    Ok(count)
}

/// Whether the image that the stop by this seed leaves of a run is clean (1 where it is), and how many places of its pool read as they may.
fn left_by_stop(alloc: Global, begin: &Begin, run: &Run, seed: u64) -> Result<[u64; 2], Fail> {
    let mut left = stopped(alloc, &run.disk, seed)?;
    let is_clean = is_clean(alloc, &mut left);
    let expected = &run.expected;
    let places = told_of_opened(alloc, left, begin.room, |pool| {
        places_left(pool, expected)
    })??;
    Ok([is_clean as u64, places])
}

/// Three clean images, all places of which read as they may.
pub(crate) const ALL_LEFT: [u64; 2] = [3, 27];

/// How many images that the stops by three seeds leave are clean, and how many places of their pools read as they may.
pub(crate) fn left_by_stops(alloc: Global, begin: &Begin, run: &Run) -> Result<[u64; 2], Fail> {
    let mut all = [0u64, 0];
    for seed in 0..3 {
        let left = left_by_stop(alloc, begin, run, seed)?;
        all = [all[0].wrapping_add(left[0]), all[1].wrapping_add(left[1])];
    }
    Ok(all)
}
