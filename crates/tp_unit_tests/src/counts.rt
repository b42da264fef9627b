ghost use Rattle.std.specs.Prelude.{◌≡◌, ◌<◌};

use std::alloc::Global;
use tp_counts::{Counts, StoreError};
use tp_disk::{Disk, Fault, MemDisk};
use tp_layout::{Damaged, Part, SlotId};
use tp_model::{Geometry, Refusal};

const ZERO: SlotId = SlotId::Zero;

const ONE: SlotId = SlotId::One;

/// A pool of 128 sectors a block, 16 blocks a volume, 1032 metadata blocks and 4 data blocks, so of 8768 sectors. An
/// area has 2 blocks of metadata counts and 1 of data counts; A starts at block 2, B at block 5.
fn small() -> Result<Geometry, Refusal> {
    Geometry::new(128, 16, 1032, 4)
}

fn named<D: Disk>(
    alloc: Global,
    disk: &mut D,
    part: Part,
    area: SlotId,
) -> Result<Counts, Refusal> {
    let geometry = small()?;
    if disk.sectors() < geometry.image_sectors() {
        return Err(Refusal::BadSuper);
    }
    Counts::read(alloc, disk, geometry, part, area)
}

/// Writes the counts of a pool of this geometry.
fn store<D: Disk>(
    counts: &mut Counts,
    disk: &mut D,
    geometry: &Geometry,
    area: SlotId,
) -> Result<(), Refusal>
    requires { counts.old.geometry ≡ geometry.now }
    ensures { counts.new.geometry ≡ counts.old.geometry }
{
    if disk.sectors() < geometry.image_sectors() {
        return Err(Refusal::BadSuper);
    }
    match counts.write_area(disk, area, &[true; 1024]) {
        Ok(()) => Ok(()),
        Err(Fault) => Err(Refusal::Fault),
    }
}

fn take(counts: &mut Counts, block: u64, times: u32)
    ensures { counts.new.geometry ≡ counts.old.geometry }
{
    for _ in 0..times {
        if block < counts.blocks() && counts.now(block) < u32::MAX {
            counts.inc(block);
        }
    }
}

fn drop_one(counts: &mut Counts, block: u64)
    ensures { counts.new.geometry ≡ counts.old.geometry }
{
    if block < counts.blocks() && counts.now(block) > 0 {
        counts.dec(block);
    }
}

/// The counts of a block, now and kept; none past the last.
fn both(counts: &Counts, block: u64) -> Option<(u32, u32)> {
    if block < counts.blocks() {
        Some((counts.now(block), counts.kept(block)))
    } else {
        None
    }
}

/// The first 16 bytes of a sector.
fn bytes_on(disk: &mut MemDisk, sector: u64) -> Result<[u8; 16], Fault> {
    let mut bytes = [0; 512];
    if sector < disk.sectors() {
        disk.read(sector, &mut bytes)?;
    }
    let mut front = [0; 16];
    front.copy_from_slice(&bytes[..16]);
    Ok(front)
}

fn put<D: Disk>(disk: &mut D, sector: u64, bytes: &[u8; 512]) -> Result<(), Fault> {
    if sector >= disk.sectors() {
        return Err(Fault);
    }
    disk.write(sector, bytes)
}

/// The first bytes of the first sector of each part of each area: the metadata and the data of A, then those of B.
fn fronts_on(disk: &mut MemDisk) -> Result<[[u8; 16]; 4], Fault> {
    Ok([
        bytes_on(disk, 16)?,
        bytes_on(disk, 32)?,
        bytes_on(disk, 40)?,
        bytes_on(disk, 56)?,
    ])
}

/// Counts up in counts that are zero: block 3 has the count 257 then, block 1030 of the metadata 7, and the last one had one name, which was dropped.
fn count_up(counts: &mut Counts, last: u64)
    ensures { counts.new.geometry ≡ counts.old.geometry }
{
    take(counts, 1, 2);
    take(counts, 3, 257);
    take(counts, 1030, 7);
    take(counts, last, 1);
    drop_one(counts, last);
}

/// Counts up, stores the counts into an area and flushes.
fn store_counted(
    disk: &mut MemDisk,
    counts: &mut Counts,
    geometry: &Geometry,
    area: SlotId,
    last: u64,
) -> Result<(), Refusal>
    requires { counts.old.geometry ≡ geometry.now }
{
    count_up(counts, last);
    store(counts, disk, geometry, area)?;
    match disk.flush() {
        Ok(()) => Ok(()),
        Err(Fault) => Err(Refusal::Fault),
    }
}

/// The first block of which other counts were read than were stored, or which changed since the commit.
fn first_other(again: &Counts, counts: &Counts, last: u64) -> Option<u64> {
    for block in [0, 1, 2, 3, 4, 1023, 1024, 1030, last] {
        let now = both(counts, block).map(|(now, _)| (now, now));
        if both(again, block) != now {
            return Some(block);
        }
    }
    None
}

/// What is told of counts that were read: the first block of which they are others, how many blocks are used, and of how many
/// they are.
fn told_of(
    alloc: Global,
    disk: &mut MemDisk,
    counts: &Counts,
    part: Part,
    area: SlotId,
    last: u64,
) -> Result<(Option<u64>, u64, u64), Refusal> {
    let again = named(alloc, disk, part, area)?;
    Ok((
        first_other(&again, counts, last),
        again.used_count(),
        again.blocks(),
    ))
}

/// The first bytes of each part of each area of a disk.
type Fronts = [[u8; 16]; 4];

/// The first bytes of each part of each area of a disk, and whether the counts that are read there are these, of so many blocks.
fn fronts_and_counts(
    alloc: Global,
    disk: &mut MemDisk,
    counts: &Counts,
    part: Part,
    area: SlotId,
    last: u64,
) -> Result<(Fronts, bool), Refusal>
    requires { last < 2048 }
{
    let told = told_of(alloc, disk, counts, part, area, last)?;
    let is_same = told == (None, counts.used_count(), last + 1);
    match fronts_on(disk) {
        Ok(fronts) => Ok((fronts, is_same)),
        Err(Fault) => Err(Refusal::Fault),
    }
}

/// The same of what a stop of a disk leaves.
fn left_with(
    alloc: Global,
    disk: &MemDisk,
    counts: &Counts,
    part: Part,
    area: SlotId,
    last: u64,
) -> Result<(Fronts, bool), Refusal>
    requires { last < 2048 }
{
    match disk.stop(alloc, &[]) {
        Ok(mut left) => fronts_and_counts(alloc, &mut left, counts, part, area, last),
        Err(_) => Err(Refusal::Memory),
    }
}

/// The same behind a store of counts that were counted up.
fn stored_and_left(
    alloc: Global,
    counts: &mut Counts,
    geometry: &Geometry,
    part: Part,
    area: SlotId,
    last: u64,
) -> Result<(Fronts, bool), Refusal>
    requires geometry { counts.old.geometry ≡ geometry.now }
    requires last { last < 2048 }
{
    let Ok(mut disk) = MemDisk::new(alloc, geometry.image_sectors()) else {
        return Err(Refusal::Memory);
    };
    match store_counted(&mut disk, counts, geometry, area, last) {
        Ok(()) => left_with(alloc, &disk, counts, part, area, last),
        Err(refusal) => Err(refusal),
    }
}

/// Stores counts into an area and reads them again: whether they come back, and the first bytes of each part of each area.
/// Block 3 has the count 257, and the last sector of the part's first count block is empty.
fn comes_back(alloc: Global, part: Part, area: SlotId, last: u64) -> Result<(Fronts, bool), Refusal>
    requires { last < 2048 }
{
    let geometry = small()?;
    match Counts::new(alloc, geometry, part) {
        Ok(mut counts) => stored_and_left(alloc, &mut counts, &geometry, part, area, last),
        Err(_) => Err(Refusal::Memory),
    }
}

/// The same of each part in each area.
fn come_back(alloc: Global) -> Result<[(Fronts, bool); 4], Refusal> {
    Ok([
        comes_back(alloc, Part::Metadata, ZERO, 1031)?,
        comes_back(alloc, Part::Data, ZERO, 3)?,
        comes_back(alloc, Part::Metadata, ONE, 1031)?,
        comes_back(alloc, Part::Data, ONE, 3)?,
    ])
}

#[test]
fn counts_come_back(rt: HostRuntime) {
    let nothing = [0; 16];
    let something = [0, 0, 0, 0, 2, 0, 0, 0, 0, 0, 0, 0, 1, 1, 0, 0];
    let wanted = [
        ([something, nothing, nothing, nothing], true),
        ([nothing, something, nothing, nothing], true),
        ([nothing, nothing, something, nothing], true),
        ([nothing, nothing, nothing, something], true),
    ];
    assert!(rt; come_back(rt.alloc()) == Ok(wanted));
}

/// Lets the disk's call of this number from now on fail.
fn fail_later(disk: &mut MemDisk, failing: u64) {
    let next = disk.calls().saturating_add(failing);
    disk.fail(next, next);
}

/// What a read of counts answers.
fn read(alloc: Global, disk: &mut MemDisk, part: Part, area: SlotId) -> Result<(), Refusal> {
    match named(alloc, disk, part, area) {
        Ok(_) => Ok(()),
        Err(refusal) => Err(refusal),
    }
}

/// What a read of a part and a write of it answer where the disk call of this number of each fails.
fn answers_at(
    alloc: Global,
    disk: &mut MemDisk,
    counts: &mut Counts,
    geometry: &Geometry,
    part: Part,
    failing: u64,
) -> [Result<(), Refusal>; 2]
    requires { counts.old.geometry ≡ geometry.now }
    ensures { counts.new.geometry ≡ counts.old.geometry }
{
    fail_later(disk, failing);
    let read = read(alloc, disk, part, ONE);
    fail_later(disk, failing);
    let written = store(counts, disk, geometry, ONE);
    [read, written]
}

/// The answers where the first, the second and the third call fail.
type Answers = [[Result<(), Refusal>; 2]; 3];

fn answers_of(alloc: Global, disk: &mut MemDisk, part: Part) -> Result<Answers, Refusal> {
    let geometry = small()?;
    let Ok(mut counts) = Counts::new(alloc, geometry, part) else {
        return Err(Refusal::Memory);
    };
    let first = answers_at(alloc, disk, &mut counts, &geometry, part, 1);
    let second = answers_at(alloc, disk, &mut counts, &geometry, part, 2);
    let third = answers_at(alloc, disk, &mut counts, &geometry, part, 3);
    Ok([first, second, third])
}

/// The same of both parts.
fn answers_of_both(alloc: Global, disk: &mut MemDisk) -> Result<(Answers, Answers), Refusal> {
    let of_metadata = answers_of(alloc, disk, Part::Metadata)?;
    Ok((of_metadata, answers_of(alloc, disk, Part::Data)?))
}

/// A disk of zeros for such a pool.
fn blank(alloc: Global) -> Result<MemDisk, Refusal> {
    let geometry = small()?;
    match MemDisk::new(alloc, geometry.image_sectors()) {
        Ok(disk) => Ok(disk),
        Err(_) => Err(Refusal::Memory),
    }
}

/// The same on such a disk.
fn answers_on_blank(alloc: Global) -> Result<(Answers, Answers), Refusal> {
    let mut disk = blank(alloc)?;
    answers_of_both(alloc, &mut disk)
}

/// Stores counts into area A of a disk, on which the call of this number fails while others are stored into area B. The
/// fourth and the fifth call write the two blocks.
fn fail_in_a_store(
    disk: &mut MemDisk,
    counts: &mut Counts,
    geometry: &Geometry,
    failing: u64,
) -> Result<(), Refusal>
    requires { counts.old.geometry ≡ geometry.now }
{
    take(counts, 9, 1);
    store(counts, disk, geometry, ZERO)?;
    if disk.flush().is_err() {
        return Err(Refusal::Fault);
    }
    counts.keep();
    take(counts, 1025, 3);
    drop_one(counts, 9);
    disk.fail(failing, failing);
    let _ = store(counts, disk, geometry, ONE);
    Ok(())
}

/// Makes counts, and does that with them.
fn fail_in_a_store_of_new(alloc: Global, disk: &mut MemDisk, failing: u64) -> Result<(), Refusal> {
    let geometry = small()?;
    match Counts::new(alloc, geometry, Part::Metadata) {
        Ok(mut counts) => fail_in_a_store(disk, &mut counts, &geometry, failing),
        Err(_) => Err(Refusal::Memory),
    }
}

/// The counts of two blocks of the metadata, now and kept.
type OfTwo = (Option<(u32, u32)>, Option<(u32, u32)>);

/// The counts of the blocks 9 and 1025 in area A.
fn counts_in_a(alloc: Global, disk: &mut MemDisk) -> Result<OfTwo, Refusal> {
    let old = named(alloc, disk, Part::Metadata, ZERO)?;
    Ok((both(&old, 9), both(&old, 1025)))
}

/// The same on what a stop of a disk leaves that picks these writes.
fn counts_left(alloc: Global, disk: &MemDisk, picks: &[u64]) -> Result<OfTwo, Refusal> {
    match disk.stop(alloc, picks) {
        Ok(mut left) => counts_in_a(alloc, &mut left),
        Err(_) => Err(Refusal::Memory),
    }
}

/// The same on a disk on which this call failed, of a stop that picks the newest writes and of one that picks none.
fn counts_behind(
    alloc: Global,
    disk: &mut MemDisk,
    failing: u64,
) -> Result<(OfTwo, OfTwo), Refusal> {
    fail_in_a_store_of_new(alloc, disk, failing)?;
    let newest = counts_left(alloc, disk, &[])?;
    Ok((newest, counts_left(alloc, disk, &[0; 8_768])?))
}

/// The same on a disk of zeros.
fn counts_on_blank(alloc: Global, failing: u64) -> Result<(OfTwo, OfTwo), Refusal> {
    let mut disk = blank(alloc)?;
    counts_behind(alloc, &mut disk, failing)
}

#[test]
fn a_stop_leaves_the_other_area(rt: HostRuntime) {
    let old = (Some((1, 1)), Some((0, 0)));
    for failing in [4, 5, 6] {
        assert!(rt; counts_on_blank(rt.alloc(), failing) == Ok((old, old)));
    }
}

/// What a read of the data's counts answers in area B and in area A, where a byte of the first is not 0 that stands behind
/// the fourth count.
fn reads_of_data(alloc: Global, disk: &mut MemDisk) -> Result<[Result<(), Refusal>; 2], Fault> {
    let mut sector = [0; 512];
    sector[16] = 1;
    put(disk, 56, &sector)?;
    Ok([
        read(alloc, disk, Part::Data, ONE),
        read(alloc, disk, Part::Data, ZERO),
    ])
}

/// The same on a disk of zeros.
fn reads_on_blank(alloc: Global) -> Result<[Result<(), Refusal>; 2], Fault> {
    match blank(alloc) {
        Ok(mut disk) => reads_of_data(alloc, &mut disk),
        Err(_) => Err(Fault),
    }
}

#[test]
fn faults_and_damage_are_told(rt: HostRuntime) {
    // The counts of metadata are two blocks, those of data are one.
    let fault = Err(Refusal::Fault);
    let of_metadata = [[fault; 2], [fault; 2], [Ok(()); 2]];
    let of_data = [[fault; 2], [Ok(()); 2], [Ok(()); 2]];
    let told = (answers_on_blank(rt.alloc()), reads_on_blank(rt.alloc()));
    assert!(rt;
        told == (
            Ok((of_metadata, of_data)),
            Ok([Err(Refusal::Damaged), Ok(())])
        )
    );
    let errors = [StoreError::from(Fault), StoreError::from(Damaged)].map(Refusal::from);
    assert!(rt; errors == [Refusal::Fault, Refusal::Damaged]);
}

/// The least block that is zero in both.
fn first_of(now: &[u32; 40], kept: &[u32; 40]) -> Option<u64> {
    for b in 0..40 {
        if now[b] == 0 && kept[b] == 0 {
            return Some(b as u64);
        }
    }
    None
}

/// The counts of a block, how many blocks are used and free, and the least free one.
type Shown = (Option<(u32, u32)>, u64, u64, Option<u64>);

fn shown(counts: &mut Counts, block: u64) -> Shown {
    (
        both(counts, block),
        counts.used_count(),
        counts.free_count(),
        counts.find_free(),
    )
}

/// The same of plain lists, by counting.
fn shown_of_lists(now: &[u32; 40], kept: &[u32; 40], block: usize) -> Shown
    requires { block < 40 }
{
    let used = now.iter().filter(|n| **n > 0).count() as u64;
    let free = now
        .iter()
        .zip(kept.iter())
        .filter(|(n, k)| **n == 0 && **k == 0)
        .count() as u64;
    (
        Some((now[block], kept[block])),
        used,
        free,
        first_of(now, kept),
    )
}

/// Changes the counts and the lists alike, as a number says.
fn change(counts: &mut Counts, now: &mut [u32; 40], kept: &mut [u32; 40], number: u64, b: usize)
    requires { b < 40 }
{
    match number {
        0 => {
            counts.keep();
            *kept = *now;
        }
        1..=5 => {
            take(counts, b as u64, 1);
            now[b] = now[b].saturating_add(1);
        }
        6 => {
            let found = counts.find_free().unwrap_or(40);
            take(counts, found, 1);
            if found < 40 {
                now[found as usize] = 1;
            }
        }
        _ => {
            drop_one(counts, b as u64);
            now[b] = now[b].saturating_sub(1);
        }
    }
}

/// The first of many changes behind which the counts tell something else than plain lists.
fn first_other_change(counts: &mut Counts) -> Option<u32> {
    let (mut now, mut kept) = ([0u32; 40], [0u32; 40]);
    let mut seed = 1u64;
    for step in 0..4000u32 {
        seed = seed.wrapping_mul(6_364_136_223_846_793_005).wrapping_add(1);
        let b = (seed >> 33) as usize % 40;
        change(counts, &mut now, &mut kept, (seed >> 50) % 16, b);
        if shown(counts, b as u64) != shown_of_lists(&now, &kept, b) {
            return Some(step);
        }
    }
    None
}

/// Counts of so many data blocks, all of which are free.
fn data_counts(alloc: Global, blocks: u64) -> Result<Counts, Refusal> {
    let geometry = Geometry::new(128, 16, 2048, blocks)?;
    match Counts::new(alloc, geometry, Part::Data) {
        Ok(counts) => Ok(counts),
        Err(_) => Err(Refusal::Memory),
    }
}

/// The same of new counts.
fn first_other_of_new(alloc: Global) -> Result<Option<u32>, Refusal> {
    let mut counts = data_counts(alloc, 40)?;
    Ok(first_other_change(&mut counts))
}

#[test]
fn counts_follow_plain_lists(rt: HostRuntime) {
    assert!(rt; first_other_of_new(rt.alloc()) == Ok(None));
}

/// What `find_free` says of counts of 3000 blocks that are full: then with a block of the last run free, with one of the
/// first run free and taken again, and with that one lost and a commit kept.
fn over_runs(counts: &mut Counts) -> [Option<u64>; 6] {
    for b in 0..3000 {
        take(counts, b, 1);
    }
    let full = counts.find_free();
    drop_one(counts, 2050);
    let far = counts.find_free();
    drop_one(counts, 3);
    let near = counts.find_free();
    take(counts, 3, 1);
    let again = counts.find_free();
    counts.keep();
    drop_one(counts, 3);
    let lost = counts.find_free();
    counts.keep();
    [full, far, near, again, lost, counts.find_free()]
}

/// The same of new counts.
fn over_new_runs(alloc: Global) -> Result<[Option<u64>; 6], Refusal> {
    let mut counts = data_counts(alloc, 3000)?;
    Ok(over_runs(&mut counts))
}

/// As many data blocks as a pool has at most: 1024 runs.
const MOST: u64 = 1_048_576;

/// Counts of so many that are all named.
fn all_named(alloc: Global) -> Result<Counts, Refusal> {
    let geometry = Geometry::new(128, 16, 4096, MOST)?;
    let Ok(mut counts) = Counts::new(alloc, geometry, Part::Data) else {
        return Err(Refusal::Memory);
    };
    for block in 0..MOST {
        take(&mut counts, block, 1);
    }
    Ok(counts)
}

/// Gives a block up, looks for a free one, and takes the first again: whether that was the one.
fn is_found_again(counts: &mut Counts, block: u64) -> bool {
    drop_one(counts, block);
    let found = counts.find_free();
    take(counts, block, 1);
    found == Some(block)
}

/// Whether each of so many turns finds these blocks, one behind the other.
fn are_found_again(counts: &mut Counts, blocks: &[u64], turns: u32) -> bool {
    for _ in 0..turns {
        for block in blocks {
            if !is_found_again(counts, *block) {
                return false;
            }
        }
    }
    true
}

/// The same of counts that are all named.
fn are_found_in_full(alloc: Global, blocks: &[u64], turns: u32) -> Result<bool, Refusal> {
    let mut counts = all_named(alloc)?;
    Ok(are_found_again(&mut counts, blocks, turns))
}

/// A look begins where the last one ended, and of a run in which no block is free it is at one block. Each takes a second; where a look began at the first
/// block, or was at sixteen after sixteen of a full run, it would be minutes.
#[test]
fn a_full_run_is_one_step(rt: HostRuntime) {
    let found = [
        are_found_in_full(rt.alloc(), &[MOST - 1], 60_000_000),
        are_found_in_full(rt.alloc(), &[0, MOST - 1], 400_000),
    ];
    assert!(rt; found == [Ok(true); 2]);
}

/// What `find_free` says of so many blocks that are all named but this one.
fn found_among_named(alloc: Global, blocks: u64, free: u64) -> Result<Option<u64>, Refusal> {
    let mut counts = data_counts(alloc, blocks)?;
    for b in 0..blocks {
        if b != free {
            take(&mut counts, b, 1);
        }
    }
    Ok(counts.find_free())
}

/// How many blocks there are, and which of them is free, where another one is found.
fn first_not_found(alloc: Global) -> Result<Option<(u64, u64)>, Refusal> {
    for number in 0..1600u64 {
        let (blocks, free) = (number / 40 + 1, number % 40);
        let want = if free < blocks { Some(free) } else { None };
        if found_among_named(alloc, blocks, free)? != want {
            return Ok(Some((blocks, free)));
        }
    }
    Ok(None)
}

#[test]
fn one_free_block_is_found_wherever_it_is(rt: HostRuntime) {
    let found = (over_new_runs(rt.alloc()), first_not_found(rt.alloc()));
    let wanted = [None, Some(2050), Some(3), Some(2050), Some(2050), Some(3)];
    assert!(rt; found == (Ok(wanted), Ok(None)));
}
