//! Disks in memory, and what files are as disks.
use std::alloc::{AllocError, Global};
use std::fs::{File, remove_file};
use std::rt::Files;
use std::test::Fail;
use tp_disk::{Disk, Fault, FileDisk, LockedFile, MemDisk, OpenError, SharedDisk, SharedReader};

// Fills one sector with a byte.
pub(crate) fn fill<D: Disk>(disk: &mut D, at: u64, byte: u8) -> Result<(), Fault> {
    if at >= disk.sectors() {
        return Err(Fault);
    }
    disk.write(at, &[byte; 512])
}

// Fills two sectors, each with a byte of its own.
fn fill_two<D: Disk>(disk: &mut D, at: u64, first: u8, second: u8) -> Result<(), Fault> {
    if disk.sectors() < 2 || at > disk.sectors() - 2 {
        return Err(Fault);
    }
    let mut bytes = [first; 1024];
    bytes[512..].copy_from_slice(&[second; 512]);
    disk.write(at, &bytes)
}

// The byte that fills a sector, or 255 where the sector is of several bytes.
pub(crate) fn filling<D: Disk>(disk: &mut D, at: u64) -> Result<u8, Fault> {
    if at >= disk.sectors() {
        return Err(Fault);
    }
    let mut out = [9; 512];
    disk.read(at, &mut out)?;
    let first = out[0];
    Ok(if out.iter().all(|byte| *byte == first) {
        first
    } else {
        255
    })
}

// The fillings of the first 8 sectors.
fn fillings<D: Disk>(disk: &mut D) -> Result<[u8; 8], Fault> {
    let mut out = [255; 8];
    for i in 0..8 {
        out[i] = filling(disk, i as u64)?;
    }
    Ok(out)
}

// Writes that meet in sector 3, and a flush.
fn write_some<D: Disk>(disk: &mut D) -> Result<(), Fault> {
    fill(disk, 7, 4)?;
    fill_two(disk, 2, 5, 6)?;
    fill_two(disk, 3, 7, 8)?;
    disk.flush()
}

// What `write_some` leaves of zero sectors.
const SOME: [u8; 8] = [0, 0, 5, 7, 8, 0, 0, 4];

// How many sectors a disk has, what its last sector is filled with, and the fillings of all behind `write_some`.
type Told = (u64, u8, [u8; 8]);

// What every disk of 8 zero sectors tells, seen through the trait alone.
const A_DISK: Told = (8, 0, SOME);

fn told_of<D: Disk>(disk: &mut D) -> Result<Told, Fault> {
    let (sectors, last) = (disk.sectors(), filling(disk, 7)?);
    write_some(disk)?;
    Ok((sectors, last, fillings(disk)?))
}

// How many calls a disk had before it told what it is, and how many behind that.
fn told_and_calls(disk: &mut MemDisk) -> Result<(u64, Told, u64), Fault> {
    let before = disk.calls();
    let told = told_of(disk)?;
    Ok((before, told, disk.calls()))
}

// What is told of a disk of 8 zero sectors by a function that has it by `&mut`.
fn told_of_new<T, F: FnOnce(Global, &mut MemDisk) -> Result<T, Fault> + Drop>(
    alloc: Global,
    tell: F,
) -> Result<T, Fault>
    requires { F.IsAlwaysCallable tell }
{
    match MemDisk::new(alloc, 8) {
        Ok(mut disk) => tell(alloc, &mut disk),
        Err(_) => Err(Fault),
    }
}

// How many sectors a disk has and how many calls it had, and then the fillings of sectors 3, 4 and 5.
fn shown(disk: &mut MemDisk) -> Result<(u64, u64, [u8; 3]), Fault> {
    let (sectors, calls) = (disk.sectors(), disk.calls());
    let fillings = [filling(disk, 3)?, filling(disk, 4)?, filling(disk, 5)?];
    Ok((sectors, calls, fillings))
}

// Fills sector 3 with 1, and flushes.
fn keep_one(disk: &mut MemDisk) -> Result<(), Fault> {
    fill(disk, 3, 1)?;
    disk.flush()
}

// The same, and then fills it with 2, and then with 3 and the sector behind with 5.
fn write_three(disk: &mut MemDisk) -> Result<(), Fault> {
    keep_one(disk)?;
    fill(disk, 3, 2)?;
    fill_two(disk, 3, 3, 5)
}

// What is shown of the disk that a stop leaves which picks these writes.
fn shown_behind(
    alloc: Global,
    disk: &MemDisk,
    picks: &[u64],
) -> Result<(u64, u64, [u8; 3]), Fault> {
    match disk.stop(alloc, picks) {
        Ok(mut left) => shown(&mut left),
        Err(_) => Err(Fault),
    }
}

// What is picked, and what sectors 3 and 4 are filled with then.
const PICKED: [(&[u64], u8, u8); 9] = [
    (&[], 3, 5),
    (&[0, 0, 0], 3, 5),
    (&[0, 0, 0, 0], 1, 5),
    (&[0, 0, 0, 1], 2, 5),
    (&[0, 0, 0, 2], 3, 5),
    (&[0, 0, 0, 3], 3, 5),
    (&[9, 9, 9, 1, 0], 2, 0),
    (&[0, 0, 0, 0, 1], 1, 5),
    (&[0, 0, 0, u64::MAX, u64::MAX, 0, 0, 0, 7], 3, 5),
];

// Which of these is not what is shown behind its stop, of a disk that three writes were made to.
fn first_not_picked(alloc: Global, disk: &mut MemDisk) -> Result<Option<usize>, Fault> {
    write_three(disk)?;
    for (i, (picks, third, fourth)) in PICKED.iter().enumerate() {
        if shown_behind(alloc, disk, picks)? != (8, 0, [*third, *fourth, 0]) {
            return Ok(Some(i));
        }
    }
    Ok(None)
}

// What sector 3 of what a stop leaves is filled with, or this where there is no memory for it.
fn left_or(
    alloc: Global,
    disk: &MemDisk,
    picks: &[u64],
    refused: Result<u8, Fault>,
) -> Result<u8, Fault> {
    match disk.stop(alloc, picks) {
        Ok(mut left) => filling(&mut left, 3),
        Err(_) => refused,
    }
}

// Fills sectors 3 and 4 with 2 and 5, behind a 1 in sector 3, each time with a flush.
fn keep_two(disk: &mut MemDisk) -> Result<(), Fault> {
    keep_one(disk)?;
    fill_two(disk, 3, 2, 5)?;
    disk.flush()
}

// Fills sector 3 with 6: what a stop leaves in it then, and what it is filled with.
fn filled_and_left(alloc: Global, disk: &mut MemDisk) -> Result<[u8; 2], Fault> {
    fill(disk, 3, 6)?;
    let left = left_or(alloc, disk, &[0; 8], Err(Fault))?;
    Ok([left, filling(disk, 3)?])
}

// The same of what a stop leaves of a disk.
fn filled_and_left_of_left(alloc: Global, disk: &MemDisk) -> Result<[u8; 2], Fault> {
    match disk.stop(alloc, &[0; 8]) {
        Ok(mut left) => filled_and_left(alloc, &mut left),
        Err(_) => Err(Fault),
    }
}

// What sectors 3 and 4 are filled with in what a stop leaves of such a disk that picks none of the newest writes; what is told of what a stop
// leaves by `filled_and_left`, and then what sector 3 of this disk is filled with.
fn left_of_two(alloc: Global, disk: &mut MemDisk) -> Result<[[u8; 3]; 2], Fault> {
    keep_two(disk)?;
    let (_, _, left) = shown_behind(alloc, disk, &[0; 8])?;
    let [kept, filled] = filled_and_left_of_left(alloc, disk)?;
    Ok([left, [kept, filled, filling(disk, 3)?]])
}

// It keeps what was flushed, and is a disk of its own.
#[test]
fn a_stop_leaves_what_is_picked(rt: HostRuntime) {
    let told = (
        told_of_new(rt.alloc(), first_not_picked),
        told_of_new(rt.alloc(), left_of_two),
    );
    assert!(rt; told == (Ok(None), Ok([[2, 5, 0], [2, 6, 2]])));
}

// How many calls a disk had, what two writes, a flush and a read of sector 3 answered of which the last three were to fail, and how many
// calls it has had then.
type Failed = (u64, [Result<(), Fault>; 3], Result<u8, Fault>, u64);

// What is told of a disk with 1 in sector 3, to which 2 and then 7 is written.
fn failed_three(disk: &mut MemDisk) -> Result<Failed, Fault> {
    keep_one(disk)?;
    let before = disk.calls();
    disk.fail(4, 6);
    let answers = [fill(disk, 3, 2), fill(disk, 3, 7), disk.flush()];
    let read = filling(disk, 3);
    Ok((before, answers, read, disk.calls()))
}

// What sector 3 is filled with behind three stops, each of which picks another write of it.
fn left_by_picks(alloc: Global, disk: &MemDisk) -> Result<[u8; 3], Fault> {
    let mut left = [255; 3];
    for pick in 0..3 {
        left[pick] = left_or(alloc, disk, &[0, 0, 0, pick as u64], Err(Fault))?;
    }
    Ok(left)
}

// The same of such a disk, and what its sector 3 is filled with.
fn picked_and_filled(alloc: Global, disk: &mut MemDisk) -> Result<([u8; 3], u8), Fault> {
    let _ = failed_three(disk)?;
    Ok((left_by_picks(alloc, disk)?, filling(disk, 3)?))
}

// What sector 3 of such a disk is filled with, and what a flush and a read answer behind two new ranges.
fn behind_new_ranges(disk: &mut MemDisk) -> Result<[u8; 2], Fault> {
    let _ = failed_three(disk)?;
    let first = filling(disk, 3)?;
    disk.fail(9, u64::MAX);
    disk.fail(1, 7);
    disk.flush()?;
    Ok([first, filling(disk, 3)?])
}

// The failed write is the newest value, and the failed flush kept nothing. A new range is in place of the one before, also where it names calls of
// the past.
#[test]
fn the_calls_that_were_asked_for_fail(rt: HostRuntime) {
    let failed = told_of_new(rt.alloc(), |_, disk| failed_three(disk));
    let left = told_of_new(rt.alloc(), picked_and_filled);
    let behind = told_of_new(rt.alloc(), |_, disk| behind_new_ranges(disk));
    let answers = [Ok(()), Err(Fault), Err(Fault)];
    assert!(rt;
        (failed, left, behind)
            == (
                Ok((2, answers, Err(Fault), 6)),
                Ok(([1, 2, 7], 7)),
                Ok([7, 7])
            )
    );
}

// Fills sector 3 with 1 to 4: what it held behind each of these calls, and what it had to hold by those that were accepted.
fn filled_in_turn(disk: &mut MemDisk) -> Result<([u8; 4], [u8; 4]), Fault> {
    let (mut held, mut wants) = ([0; 4], [0; 4]);
    let mut want = 0;
    for i in 0..4 {
        let byte = i as u8 + 1;
        if fill(disk, 3, byte).is_ok() {
            want = byte;
        }
        held[i] = filling(disk, 3)?;
        wants[i] = want;
    }
    Ok((held, wants))
}

// What sector 3 of a disk is filled with behind a stop, and behind a flush and a stop, or this where memory is refused.
fn left_of_both(alloc: Global, disk: &mut MemDisk, want: u8) -> Result<[u8; 2], Fault> {
    let newest = left_or(alloc, disk, &[], Ok(want))?;
    disk.flush()?;
    Ok([newest, left_or(alloc, disk, &[0; 8], Ok(want))?])
}

// Whether a disk held in sector 3, behind calls, a stop, and a flush and a stop, what it had to hold, and how many calls it has had then.
fn held_and_calls(alloc: Global, disk: &mut MemDisk) -> Result<(bool, u64), Fault> {
    let (held, wants) = filled_in_turn(disk)?;
    let left = left_of_both(alloc, disk, wants[3])?;
    Ok((held == wants && left == [wants[3]; 2], disk.calls()))
}

// It passes whichever allocation is refused.
#[test]
fn refused_memory_changes_no_sector(rt: HostRuntime) {
    let told = match MemDisk::new(rt.alloc(), 8) {
        Ok(mut disk) => held_and_calls(rt.alloc(), &mut disk),
        Err(_) => Ok((true, 9)),
    };
    assert!(rt; told == Ok((true, 9)));
}

// What is told of a disk that is opened, or a fault where it is not.
fn told_of_opened(opened: Result<FileDisk<LockedFile>, OpenError>) -> Result<Told, Fault> {
    match opened {
        Ok(mut disk) => told_of(&mut disk),
        Err(_) => Err(Fault),
    }
}

// How many sectors a file has, and what they are filled with.
fn shown_of_opened(
    opened: Result<FileDisk<LockedFile>, OpenError>,
) -> Result<(u64, [u8; 8]), Fault> {
    match opened {
        Ok(mut disk) => Ok((disk.sectors(), fillings(&mut disk)?)),
        Err(_) => Err(Fault),
    }
}

// Removes a file, behind which this was told.
pub(crate) fn removed<R: Files<File = File>, T: Drop>(
    rt: &R,
    name: &str,
    told: Result<T, Fault>,
) -> Result<T, Fault> {
    match remove_file(rt, name) {
        Ok(()) => told,
        Err(_) => Err(Fault),
    }
}

// What is told of a file that is made, and how many sectors it has and what they are filled with when it is opened again.
fn made_and_opened<R: Files<File = File> + Alloc<A = Global>>(
    rt: &R,
) -> Result<(Told, (u64, [u8; 8])), Fault> {
    let told = told_of_opened(FileDisk::create(rt, "kept.img", 8))?;
    let kept = shown_of_opened(FileDisk::open(rt, "kept.img"));
    Ok((told, removed(rt, "kept.img", kept)?))
}

#[test]
fn disks_keep_what_was_written(rt: HostRuntime) {
    let told = told_of_new(rt.alloc(), |_, disk| told_and_calls(disk));
    let of_file = made_and_opened(&rt);
    assert!(rt; (told, of_file) == (Ok((0, A_DISK, 13)), Ok((A_DISK, (8, SOME)))));
}

// So many sectors, each filled with the remainder of its number.
fn numbered(alloc: Global, sectors: u32) -> Result<Vec<u8>, AllocError> {
    let mut bytes = Vec::new(alloc);
    for number in 0..sectors {
        bytes.extend_from_slice(&[(number % 251) as u8; 512])?;
    }
    Ok(bytes)
}

// Writes sectors from sector 1 on by one call: the first of them that is not filled as it was written.
fn first_other<D: Disk>(disk: &mut D, bytes: &[u8]) -> Result<Option<usize>, Fault> {
    let count = bytes.len() / 512;
    if bytes.len() % 512 != 0 || count as u64 >= disk.sectors() {
        return Err(Fault);
    }
    disk.write(1, bytes)?;
    for i in 0..count {
        if filling(disk, 1 + i as u64)? != bytes[512 * i] {
            return Ok(Some(i));
        }
    }
    Ok(None)
}

// The same of 300 sectors, and what the sectors beside these are filled with.
fn first_other_and_beside(
    disk: &mut FileDisk<LockedFile>,
    bytes: &[u8],
) -> Result<(Option<usize>, [u8; 2]), Fault> {
    let other = first_other(disk, bytes)?;
    Ok((other, [filling(disk, 0)?, filling(disk, 301)?]))
}

// The same of a disk that is opened.
fn long_write(
    alloc: Global,
    opened: Result<FileDisk<LockedFile>, OpenError>,
) -> Result<(Option<usize>, [u8; 2]), Fault> {
    match (opened, numbered(alloc, 300)) {
        (Ok(mut disk), Ok(bytes)) => first_other_and_beside(&mut disk, &bytes),
        _ => Err(Fault),
    }
}

// The same of a file.
fn long_file<R: Files<File = File> + Alloc<A = Global>>(
    rt: &R,
    alloc: Global,
) -> Result<(Option<usize>, [u8; 2]), Fault> {
    let told = long_write(alloc, FileDisk::create(rt, "long.img", 302));
    removed(rt, "long.img", told)
}

// A long write takes several calls of the system: here two of 64 KiB and a shorter one.
#[test]
fn a_long_write_is_whole(rt: HostRuntime) {
    assert!(rt; long_file(&rt, rt.alloc()) == Ok((None, [0, 0])));
}

// The last byte of a sector, by a shared read.
fn shared_byte<D: SharedDisk>(disk: &D, at: u64) -> Option<u8> {
    if at >= disk.sectors() {
        return None;
    }
    let mut out = [9; 512];
    if !disk.read_shared(at, &mut out) {
        return None;
    }
    Some(out[511])
}

// Fills sector 3 with 5: its last byte, by a shared read.
fn filled_and_shared<D: SharedDisk>(disk: &mut D) -> Result<Option<u8>, Fault> {
    fill(disk, 3, 5)?;
    Ok(shared_byte(disk, 3))
}

// What a reader of a disk answers to a read of sector 3, and to a write of it and a flush.
type Looked = (Result<u8, Fault>, [Result<(), Fault>; 2]);

fn told_by_reader(disk: &MemDisk) -> Looked {
    let mut reader = SharedReader::new(disk);
    let read = filling(&mut reader, 3);
    (read, [fill(&mut reader, 3, 7), reader.flush()])
}

// The byte that a shared read gives of sector 3 of a file that was filled with 5.
fn shared_of_file<R: Files<File = File> + Alloc<A = Global>>(rt: &R) -> Result<Option<u8>, Fault> {
    let shared = match FileDisk::create(rt, "looked.img", 8) {
        Ok(mut disk) => filled_and_shared(&mut disk),
        Err(_) => Err(Fault),
    };
    removed(rt, "looked.img", shared)
}

// The same of a disk in memory, and what is told by a reader of it.
fn looked_at(disk: &mut MemDisk) -> (Result<Option<u8>, Fault>, Looked) {
    let shared = filled_and_shared(disk);
    (shared, told_by_reader(disk))
}

// Disks are looked at by shared reads, and through a reader, which neither writes nor flushes.
#[test]
fn disks_are_looked_at(rt: HostRuntime) -> Result<(), Fail> {
    assert!(rt; shared_of_file(&rt) == Ok(Some(5)));
    let told = looked_at(&mut MemDisk::new(rt.alloc(), 8)?);
    assert!(rt; told == (Ok(Some(5)), (Ok(5), [Err(Fault); 2])));
    Ok(())
}

// How often the first 4 sectors and the one behind the last were read, and how often written.
type Counts = ([u64; 5], [u64; 5]);

fn counts(disk: &MemDisk) -> Counts {
    let mut reads = [0; 5];
    let mut writes = [0; 5];
    for i in 0..5 {
        reads[i] = disk.reads(i as u64);
        writes[i] = disk.writes(i as u64);
    }
    (reads, writes)
}

// Calls that meet in sector 2, of which the last write and the last read are to fail.
fn meet(disk: &mut MemDisk) -> Result<(), Fault> {
    fill_two(disk, 1, 1, 2)?;
    fill(disk, 2, 3)?;
    disk.flush()?;
    filling(disk, 2)?;
    disk.fail(5, 6);
    let _ = fill_two(disk, 2, 4, 5);
    let _ = filling(disk, 0);
    Ok(())
}

// The counts of a disk before `meet`, behind it, and of what a stop leaves then, and the reads of a sector far behind the last.
fn counts_of_three(alloc: Global, disk: &mut MemDisk) -> Result<([Counts; 3], u64), Fault> {
    let before = counts(disk);
    meet(disk)?;
    let left = match disk.stop(alloc, &[]) {
        Ok(left) => counts(&left),
        Err(_) => return Err(Fault),
    };
    Ok(([before, counts(disk), left], disk.reads(u64::MAX)))
}

#[test]
fn each_sector_has_its_counts(rt: HostRuntime) -> Result<(), Fail> {
    let told = counts_of_three(rt.alloc(), &mut MemDisk::new(rt.alloc(), 4)?);
    let none = ([0; 5], [0; 5]);
    let met = ([1, 0, 1, 0, 0], [0, 1, 3, 1, 0]);
    assert!(rt; told == Ok(([none, met, none], 0)));
    Ok(())
}
