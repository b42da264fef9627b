use crate::samples::FRESH;
use std::alloc::Global;
use tp_disk::{Disk, Fault, MemDisk};
use tp_layout::{Superblock, Version};
use tp_model::{Geometry, Mb, Refusal};
use tp_super::{load, store};

/// A slot of no pool.
const FOREIGN: [u8; 512] = [0; 512];

/// The sector of the fresh pool's superblock with this sequence.
fn good(sequence: u64) -> [u8; 512] {
    let mut sector = [0; 512];
    sector[..56].copy_from_slice(&FRESH);
    sector[16..24].copy_from_slice(&sequence.to_le_bytes());
    sector
}

/// The same with this version.
fn of_version(version: u8, sequence: u64) -> [u8; 512] {
    let mut sector = good(sequence);
    sector[8] = version;
    sector
}

/// The same with this many data blocks.
fn of_size(data_blocks: u8, sequence: u64) -> [u8; 512] {
    let mut sector = good(sequence);
    sector[44] = data_blocks;
    sector
}

/// The same with a byte behind the fields that is not 0.
fn bad(sequence: u64) -> [u8; 512] {
    let mut sector = good(sequence);
    sector[511] = 1;
    sector
}

/// The superblock that `good` spells.
fn superblock(sequence: u64) -> Result<Superblock, Refusal> {
    Ok(Superblock {
        version: Version::OwnSizes,
        needs_check: false,
        sequence,
        transaction_id: 0,
        geometry: Geometry::new(128, 16, 2048, 4)?,
        root: Mb::new(8),
        held_root: Mb::new(0),
    })
}

/// Writes a sector, where it is on the disk.
fn put<D: Disk>(disk: &mut D, at: u64, sector: &[u8; 512]) -> Result<(), Fault> {
    if at >= disk.sectors() {
        return Ok(());
    }
    disk.write(at, sector)
}

/// What stands in a slot.
#[derive(Clone, Copy)]
enum Written {
    Foreign,
    Good(u64),
    Bad(u64),
    /// Of this version.
    Version(u8, u64),
    /// With this many data blocks.
    Size(u8, u64),
}

fn sector_of(written: &Written) -> [u8; 512] {
    match *written {
        Written::Foreign => FOREIGN,
        Written::Good(sequence) => good(sequence),
        Written::Bad(sequence) => bad(sequence),
        Written::Version(version, sequence) => of_version(version, sequence),
        Written::Size(data_blocks, sequence) => of_size(data_blocks, sequence),
    }
}

/// Puts these slots onto a disk, and keeps them.
fn put_slots(disk: &mut MemDisk, first: &Written, second: &Written) -> Result<(), Fault> {
    put(disk, 0, &sector_of(first))?;
    put(disk, 8, &sector_of(second))?;
    disk.flush()
}

/// The sequence of the superblock that a disk's slots give.
fn sequence_on(disk: &mut MemDisk) -> Result<u64, Refusal> {
    Ok(load(disk)?.sequence)
}

/// The sequence that these slots give on a disk, where this call of it fails.
fn sequence_behind(
    disk: &mut MemDisk,
    first: &Written,
    second: &Written,
    failing: u64,
) -> Result<Result<u64, Refusal>, Fault> {
    put_slots(disk, first, second)?;
    disk.fail(failing, failing);
    Ok(sequence_on(disk))
}

/// The same on a disk of this many sectors.
fn sequence_of(
    alloc: Global,
    sectors: u64,
    first: &Written,
    second: &Written,
    failing: u64,
) -> Result<Result<u64, Refusal>, Fault> {
    match MemDisk::new(alloc, sectors) {
        Ok(mut disk) => sequence_behind(&mut disk, first, second, failing),
        Err(_) => Err(Fault),
    }
}

/// Stores where both slots are on the disk.
fn store_on<D: Disk>(disk: &mut D, next: &Superblock) -> Result<(), Fault> {
    if disk.sectors() < 9 {
        return Err(Fault);
    }
    store(disk, next)
}

/// Two slots, and the sequence that they give.
const CHOICES: [(Written, Written, Result<u64, Refusal>); 22] = [
    (Written::Foreign, Written::Foreign, Err(Refusal::NotAPool)),
    (
        Written::Version(3, 0),
        Written::Foreign,
        Err(Refusal::BadVersion),
    ),
    (
        Written::Good(0),
        Written::Version(0, 1),
        Err(Refusal::BadVersion),
    ),
    (
        Written::Bad(0),
        Written::Version(3, 1),
        Err(Refusal::BadVersion),
    ),
    (
        Written::Version(3, 0),
        Written::Bad(1),
        Err(Refusal::BadVersion),
    ),
    (Written::Bad(0), Written::Foreign, Err(Refusal::Damaged)),
    (Written::Good(0), Written::Bad(1), Err(Refusal::Damaged)),
    (Written::Bad(2), Written::Good(1), Err(Refusal::Damaged)),
    // A superblock of the other slot.
    (Written::Good(1), Written::Foreign, Err(Refusal::Damaged)),
    (Written::Good(2), Written::Size(5, 1), Err(Refusal::Damaged)),
    (Written::Good(0), Written::Good(3), Err(Refusal::Damaged)),
    (Written::Good(4), Written::Good(1), Err(Refusal::Damaged)),
    (Written::Good(4), Written::Foreign, Ok(4)),
    (Written::Foreign, Written::Good(7), Ok(7)),
    (Written::Good(2), Written::Good(1), Ok(2)),
    (Written::Good(2), Written::Good(3), Ok(3)),
    (Written::Good(0), Written::Good(u64::MAX), Ok(0)),
    (
        Written::Good(u64::MAX - 1),
        Written::Good(u64::MAX),
        Ok(u64::MAX),
    ),
    // The sequence alone tells, whatever the versions.
    (Written::Version(1, 0), Written::Foreign, Ok(0)),
    (Written::Version(1, 2), Written::Version(1, 1), Ok(2)),
    (Written::Version(1, 0), Written::Good(1), Ok(1)),
    (Written::Good(0), Written::Version(1, 1), Ok(1)),
];

/// The first of these that give another one.
fn first_other_choice(alloc: Global) -> Result<Option<usize>, Fault> {
    for (i, (first, second, want)) in CHOICES.iter().enumerate() {
        if sequence_of(alloc, 16, first, second, 0)? != *want {
            return Ok(Some(i));
        }
    }
    Ok(None)
}

/// How many sectors a disk has, what stands in its first slot, and the sequence that its slots give, of which the second one has 1.
const ENDS: [(u64, Written, Result<u64, Refusal>); 4] = [
    (9, Written::Good(0), Ok(1)),
    (8, Written::Good(0), Ok(0)),
    (8, Written::Foreign, Err(Refusal::NotAPool)),
    (0, Written::Good(0), Err(Refusal::NotAPool)),
];

/// The first of these disks that gives another one.
fn first_other_end(alloc: Global) -> Result<Option<usize>, Fault> {
    for (i, (sectors, first, want)) in ENDS.iter().enumerate() {
        if sequence_of(alloc, *sectors, first, &Written::Good(1), 0)? != *want {
            return Ok(Some(i));
        }
    }
    Ok(None)
}

/// Slots of which a read fails.
const FAILING: [(Written, Written); 4] = [
    (Written::Good(0), Written::Good(1)),
    (Written::Version(3, 0), Written::Foreign),
    (Written::Bad(0), Written::Foreign),
    (Written::Foreign, Written::Foreign),
];

/// The first of these of which that is not told, whichever of the two reads fails.
fn first_untold(alloc: Global) -> Result<Option<usize>, Fault> {
    for (i, (first, second)) in FAILING.iter().enumerate() {
        // The two calls of `load` are the fourth and the fifth of this disk.
        let read = [
            sequence_of(alloc, 16, first, second, 4)?,
            sequence_of(alloc, 16, first, second, 5)?,
        ];
        if read != [Err(Refusal::Fault); 2] {
            return Ok(Some(i));
        }
    }
    Ok(None)
}

/// A slot may be past the end, and a fault is told first.
#[test]
fn slots_give_one_answer(rt: HostRuntime) {
    let others = [
        first_other_choice(rt.alloc()),
        first_other_end(rt.alloc()),
        first_untold(rt.alloc()),
    ];
    assert_eq!(rt; others, [Ok(None); 3]);
}

/// The sequence on what a stop of a disk leaves that picks these writes.
fn sequence_left(
    alloc: Global,
    disk: &MemDisk,
    picks: &[u64],
) -> Result<Result<u64, Refusal>, Fault> {
    match disk.stop(alloc, picks) {
        Ok(mut left) => Ok(sequence_on(&mut left)),
        Err(_) => Err(Fault),
    }
}

/// What a store of a superblock is answered, and then the sequence after a stop that leaves none of what was written since the last flush, and after one that
/// leaves all of it.
type Stored = (
    Result<(), Fault>,
    Result<u64, Refusal>,
    Result<u64, Refusal>,
);

/// Puts these slots onto a disk, and stores a superblock, where this call of the disk fails.
fn stored_on(
    alloc: Global,
    disk: &mut MemDisk,
    slots: &(Written, Written),
    next: &Superblock,
    failing: u64,
) -> Result<Stored, Fault> {
    let (first, second) = slots;
    put_slots(disk, first, second)?;
    disk.fail(failing, failing);
    let answer = store_on(disk, next);
    let oldest = sequence_left(alloc, disk, &[0; 16])?;
    Ok((answer, oldest, sequence_left(alloc, disk, &[])?))
}

/// The same on a new disk.
fn after_store(
    alloc: Global,
    slots: &(Written, Written),
    next: &Superblock,
    failing: u64,
) -> Result<Stored, Fault> {
    match MemDisk::new(alloc, 16) {
        Ok(mut disk) => stored_on(alloc, &mut disk, slots, next, failing),
        Err(_) => Err(Fault),
    }
}

/// The same where each of its two calls fails, which are the fourth and the fifth of this disk, and where none does.
fn after_stores(
    alloc: Global,
    slots: &(Written, Written),
    next: &Superblock,
) -> Result<[Stored; 3], Fault> {
    Ok([
        after_store(alloc, slots, next, 4)?,
        after_store(alloc, slots, next, 5)?,
        after_store(alloc, slots, next, 6)?,
    ])
}

/// The same of the superblock of this sequence.
fn after_stores_of(
    alloc: Global,
    slots: &(Written, Written),
    sequence: u64,
) -> Result<[Stored; 3], Fault> {
    match superblock(sequence) {
        Ok(next) => after_stores(alloc, slots, &next),
        Err(_) => Err(Fault),
    }
}

/// Two slots, the sequence that they give, and the one that is stored.
const STORES: [((Written, Written), Result<u64, Refusal>, u64); 6] = [
    (
        (Written::Foreign, Written::Foreign),
        Err(Refusal::NotAPool),
        0,
    ),
    ((Written::Good(0), Written::Foreign), Ok(0), 1),
    ((Written::Foreign, Written::Good(1)), Ok(1), 2),
    ((Written::Good(2), Written::Good(1)), Ok(2), 3),
    ((Written::Good(2), Written::Good(3)), Ok(3), 4),
    (
        (Written::Good(u64::MAX - 1), Written::Good(u64::MAX)),
        Ok(u64::MAX),
        0,
    ),
];

/// The first of these behind whose store a stop leaves what it may not.
fn first_not_left(alloc: Global) -> Result<Option<usize>, Fault> {
    for (i, (slots, old, next)) in STORES.iter().enumerate() {
        let wanted = [
            (Err(Fault), *old, Ok(*next)),
            (Err(Fault), *old, Ok(*next)),
            (Ok(()), Ok(*next), Ok(*next)),
        ];
        if after_stores_of(alloc, slots, *next)? != wanted {
            return Ok(Some(i));
        }
    }
    Ok(None)
}

#[test]
fn a_stop_leaves_the_old_or_the_next(rt: HostRuntime) {
    assert_eq!(rt; first_not_left(rt.alloc()), Ok(None));
}

/// The two slots of a disk, or zeros where it has none.
fn slots_on(disk: &mut MemDisk) -> Result<([u8; 512], [u8; 512]), Fault> {
    let (mut first, mut second) = ([0; 512], [0; 512]);
    if disk.sectors() >= 9 {
        disk.read(0, &mut first)?;
        disk.read(8, &mut second)?;
    }
    Ok((first, second))
}

/// How many calls a store of a superblock takes on a new disk, and whether these are its slots then.
fn calls_and_slots(
    disk: &mut MemDisk,
    next: &Superblock,
    first: &Written,
    second: &Written,
) -> Result<(u64, bool), Fault> {
    store_on(disk, next)?;
    let calls = disk.calls();
    let slots = slots_on(disk)?;
    Ok((calls, slots == (sector_of(first), sector_of(second))))
}

/// The same of the superblock of this sequence.
fn stored(
    alloc: Global,
    sequence: u64,
    first: &Written,
    second: &Written,
) -> Result<(u64, bool), Fault> {
    match (MemDisk::new(alloc, 16), superblock(sequence)) {
        (Ok(mut disk), Ok(next)) => calls_and_slots(&mut disk, &next, first, second),
        _ => Err(Fault),
    }
}

/// The same of two superblocks.
fn stored_both(alloc: Global) -> Result<[(u64, bool); 2], Fault> {
    Ok([
        stored(alloc, 0, &Written::Good(0), &Written::Foreign)?,
        stored(alloc, 1, &Written::Foreign, &Written::Good(1))?,
    ])
}

#[test]
fn a_superblock_is_stored_in_its_slot(rt: HostRuntime) {
    assert_eq!(rt; stored_both(rt.alloc()), Ok([(2, true); 2]));
}
