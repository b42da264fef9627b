//! Files as disks: how they are made, opened, locked and refused.
use crate::disk::{fill, filling, removed};
use std::alloc::Global;
use std::fs::{self, File, remove_file};
use std::io;
use std::os::unix::fs::{MetadataExt, symlink};
use std::rt::Files;
use tp_disk::{Disk, Fault, FileDisk, LockedFile, OpenError};

// Makes a file of so many bytes.
fn make_file<R: Files<File = File>>(rt: &R, name: &str, bytes: u64) -> Result<(), Fault> {
    match File::create(rt, name) {
        Ok(file) if file.set_len(bytes).is_ok() => Ok(()),
        _ => Err(Fault),
    }
}

// How many sectors a disk has that is opened.
fn sectors_of(opened: Result<FileDisk<LockedFile>, OpenError>) -> Result<u64, Fault> {
    match opened {
        Ok(disk) => Ok(disk.sectors()),
        Err(_) => Err(Fault),
    }
}

// How many sectors a file has of three and a part of one.
fn part_of_a_sector<R: Files<File = File> + Alloc<A = Global>>(rt: &R) -> Result<u64, Fault> {
    make_file(rt, "part.img", 3 * 512 + 100)?;
    let sectors = sectors_of(FileDisk::open(rt, "part.img"));
    removed(rt, "part.img", sectors)
}

// Fills sector 1 of a disk that is opened.
fn fill_opened(opened: Result<FileDisk<LockedFile>, OpenError>) -> Result<(), Fault> {
    match opened {
        Ok(mut disk) => fill(&mut disk, 1, 3),
        Err(_) => Err(Fault),
    }
}

// How long a file is.
fn length_of<R: Files<File = File>>(rt: &R, name: &str) -> Result<u64, Fault> {
    match fs::metadata(rt, name) {
        Ok(told) => Ok(told.len()),
        Err(_) => Err(Fault),
    }
}

// How many sectors a disk has that is opened, and what two of them are filled with.
fn two_of_opened(opened: Result<FileDisk<LockedFile>, OpenError>) -> Result<(u64, [u8; 2]), Fault> {
    match opened {
        Ok(mut disk) => Ok((
            disk.sectors(),
            [filling(&mut disk, 1)?, filling(&mut disk, 4)?],
        )),
        Err(_) => Err(Fault),
    }
}

// Makes a file of three sectors and a part of one, fills a sector of it, and makes a disk of five of it: how many it has, what two are filled
// with, and how long the file is.
fn made_again<R: Files<File = File> + Alloc<A = Global>>(
    rt: &R,
) -> Result<((u64, [u8; 2]), u64), Fault> {
    make_file(rt, "again.img", 3 * 512 + 100)?;
    fill_opened(FileDisk::open(rt, "again.img"))?;
    let told = two_of_opened(FileDisk::create(rt, "again.img", 5))?;
    let length = length_of(rt, "again.img");
    Ok((told, removed(rt, "again.img", length)?))
}

// A part of a sector is not counted. Creating sets the length of a file that is there, and what it held stays.
#[test]
fn a_file_that_is_there_stays(rt: HostRuntime) {
    assert!(rt; (part_of_a_sector(&rt), made_again(&rt)) == (Ok(3), Ok(((5, [3, 0]), 5 * 512))));
}

// What two others are told that would open a file or set its length, how long it is then, and how many sectors its disk has.
fn beside_another<R: Files<File = File> + Alloc<A = Global>>(
    rt: &R,
) -> Result<[Result<u64, Fault>; 4], Fault> {
    let first = FileDisk::create(rt, "one.img", 8);
    let refused = sectors_of(FileDisk::open(rt, "one.img"));
    let resized = sectors_of(FileDisk::create(rt, "one.img", 3));
    let length = length_of(rt, "one.img");
    let sectors = sectors_of(first);
    removed(rt, "one.img", Ok([refused, resized, length, sectors]))
}

// How many sectors a file has that is made, and then opened.
fn made_then_opened<R: Files<File = File> + Alloc<A = Global>>(rt: &R) -> Result<[u64; 2], Fault> {
    let made = sectors_of(FileDisk::create(rt, "free.img", 8))?;
    let opened = sectors_of(FileDisk::open(rt, "free.img"));
    Ok([made, removed(rt, "free.img", opened)?])
}

// By what mode a file is made.
fn mode_of<R: Files<File = File>>(rt: &R, name: &str) -> Result<u32, Fault> {
    match fs::metadata(rt, name) {
        Ok(told) => Ok(told.mode() % 0o1000),
        Err(_) => Err(Fault),
    }
}

// What is told of a directory that is opened, and how many sectors a file has that is made, and by what mode it is.
fn folder_and_made<R: Files<File = File> + Alloc<A = Global>>(
    rt: &R,
) -> Result<(Result<u64, Fault>, u64, u32), Fault> {
    let refused = sectors_of(FileDisk::open(rt, "."));
    let sectors = sectors_of(FileDisk::create(rt, "owned.img", 8))?;
    let mode = mode_of(rt, "owned.img");
    Ok((refused, sectors, removed(rt, "owned.img", mode)?))
}

// What the last two sectors of a disk are filled with whose file is shortened to three sectors and a part of one.
fn shorten<R: Files<File = File>>(
    rt: &R,
    disk: &mut FileDisk<LockedFile>,
) -> Result<[Result<u8, Fault>; 2], Fault> {
    fill(disk, 3, 6)?;
    make_file(rt, "short.img", 3 * 512 + 100)?;
    Ok([filling(disk, 2), filling(disk, 3)])
}

// The same of a file.
fn shortened<R: Files<File = File> + Alloc<A = Global>>(
    rt: &R,
) -> Result<[Result<u8, Fault>; 2], Fault> {
    let told = match FileDisk::create(rt, "short.img", 4) {
        Ok(mut disk) => shorten(rt, &mut disk),
        Err(_) => Err(Fault),
    };
    removed(rt, "short.img", told)
}

// What is told of files that are absent, or would be too large.
fn refusals<R: Files<File = File> + Alloc<A = Global>>(rt: &R) -> [Result<u64, Fault>; 4] {
    [
        sectors_of(FileDisk::open(rt, "missing.img")),
        sectors_of(FileDisk::create(rt, "missing/disk.img", 8)),
        sectors_of(FileDisk::create(rt, "large.img", (1 << 54) + 1)),
        sectors_of(FileDisk::open(rt, "large.img")),
    ]
}

// A directory is no disk, and a file that is made is its owner's.
#[test]
fn a_refusal_of_the_system_is_a_fault(rt: HostRuntime) {
    let told = (refusals(&rt), shortened(&rt), folder_and_made(&rt));
    assert!(rt;
        told == (
            [Err(Fault); 4],
            Ok([Ok(0), Err(Fault)]),
            Ok((Err(Fault), 8, 0o600))
        )
    );
}

// Whether this is told of a file that is not opened.
fn is_told(alloc: Global, opened: Result<FileDisk<LockedFile>, OpenError>, text: &str) -> bool {
    let Err(error) = opened else {
        return false;
    };
    match format!(in alloc; "{error}") {
        Ok(told) => told.as_str() == text,
        Err(_) => false,
    }
}

// Whether it is told of each of four files why it is not opened.
fn are_told<R: Files<File = File> + Alloc<A = Global>>(rt: &R, alloc: Global) -> [bool; 4] {
    [
        is_told(
            alloc,
            FileDisk::open(rt, "missing.img"),
            "cannot be opened: No such file or directory (os error 2)",
        ),
        is_told(
            alloc,
            FileDisk::create(rt, ".", 8),
            "cannot be opened: Is a directory (os error 21)",
        ),
        is_told(
            alloc,
            FileDisk::open_to_read(rt, "."),
            "is neither a regular file nor a block device",
        ),
        is_told(
            alloc,
            FileDisk::create(rt, "large.img", (1 << 54) + 1),
            "is larger than 2^54 sectors of 512 bytes",
        ),
    ]
}

// Whether it is told of a file that another disk has.
fn is_told_in_use<R: Files<File = File> + Alloc<A = Global>>(
    rt: &R,
    alloc: Global,
    name: &str,
) -> bool {
    match FileDisk::create(rt, name, 8) {
        Ok(_first) => is_told(
            alloc,
            FileDisk::open(rt, name),
            "is in use by another process, which holds its lock",
        ),
        Err(_) => false,
    }
}

// How many sectors a disk has that is made by this link to this file, where the file is absent, and whether the file is there then.
fn made_by_link<R: Files<File = File> + Alloc<A = Global>>(
    rt: &R,
) -> io::Result<(Result<u64, Fault>, bool)> {
    symlink(rt, "absent.img", "link.img")?;
    let sectors = sectors_of(FileDisk::create(rt, "link.img", 8));
    let is_there = fs::exists(rt, "absent.img")?;
    remove_file(rt, "link.img")?;
    Ok((sectors, is_there))
}

// Whether it is told that a file is in use, and what is told of a link.
fn in_use_and_made<R: Files<File = File> + Alloc<A = Global>>(
    rt: &R,
    alloc: Global,
) -> Result<(bool, Result<u64, Fault>, bool), Fault> {
    let in_use = is_told_in_use(rt, alloc, "told.img");
    let in_use = removed(rt, "told.img", Ok(in_use))?;
    match made_by_link(rt) {
        Ok((sectors, is_there)) => Ok((in_use, sectors, is_there)),
        Err(_) => Err(Fault),
    }
}

// Whether a disk has no trouble before it fails, and this is told of it behind a read of this sector.
fn is_trouble_told(
    alloc: Global,
    disk: &mut FileDisk<LockedFile>,
    at: u64,
    text: &str,
) -> (bool, bool) {
    let before = disk.trouble().is_none();
    let _ = filling(disk, at);
    let Some(trouble) = disk.trouble() else {
        return (before, false);
    };
    match format!(in alloc; "{trouble}") {
        Ok(told) => (before, told.as_str() == text),
        Err(_) => (before, false),
    }
}

// Shortens the file of a disk: what is told then of a read of its last sector.
fn is_shortening_told<R: Files<File = File>>(
    rt: &R,
    alloc: Global,
    disk: &mut FileDisk<LockedFile>,
) -> Result<(bool, bool), Fault> {
    make_file(rt, "trouble.img", 3 * 512 + 100)?;
    Ok(is_trouble_told(
        alloc,
        disk,
        3,
        "a read at sector 3 failed: failed to fill whole buffer",
    ))
}

// The same of a file.
fn is_trouble_of_file_told<R: Files<File = File> + Alloc<A = Global>>(
    rt: &R,
    alloc: Global,
) -> Result<(bool, bool), Fault> {
    let told = match FileDisk::create(rt, "trouble.img", 4) {
        Ok(mut disk) => is_shortening_told(rt, alloc, &mut disk),
        Err(_) => Err(Fault),
    };
    removed(rt, "trouble.img", told)
}

// A link to a file that is absent makes none.
#[test]
fn what_the_system_said_is_told(rt: HostRuntime) {
    let opened = (are_told(&rt, rt.alloc()), in_use_and_made(&rt, rt.alloc()));
    let trouble = is_trouble_of_file_told(&rt, rt.alloc());
    assert!(rt;
        (opened, trouble) == (([true; 4], Ok((true, Err(Fault), false))), Ok((true, true)))
    );
}

// How many sectors a disk has, what a write and a flush of it answer, and what the sector is filled with that was written.
type Unwritten = (u64, [Result<(), Fault>; 2], Result<u8, Fault>);

// The same of a disk that is opened.
fn told_of_read(opened: Result<FileDisk<LockedFile>, OpenError>) -> Result<Unwritten, Fault> {
    match opened {
        Ok(mut disk) => {
            let answers = [fill(&mut disk, 1, 7), disk.flush()];
            Ok((disk.sectors(), answers, filling(&mut disk, 1)))
        }
        Err(_) => Err(Fault),
    }
}

// The same of a file that is filled, and then opened to read.
fn filled_and_read<R: Files<File = File> + Alloc<A = Global>>(rt: &R) -> Result<Unwritten, Fault> {
    fill_opened(FileDisk::create(rt, "read.img", 4))?;
    let told = told_of_read(FileDisk::open_to_read(rt, "read.img"));
    removed(rt, "read.img", told)
}

// A disk that was opened to read gives what the file holds, and is never written.
#[test]
fn a_file_that_is_opened_to_read_stays(rt: HostRuntime) {
    assert!(rt; filled_and_read(&rt) == Ok((4, [Err(Fault), Ok(())], Ok(3))));
}

// How many sectors two disks have that are opened to read one file, and what is told of a third one that would write it.
fn read_by_two<R: Files<File = File> + Alloc<A = Global>>(rt: &R) -> [Result<u64, Fault>; 3] {
    let first = FileDisk::open_to_read(rt, "shared.img");
    let second = FileDisk::open_to_read(rt, "shared.img");
    let third = sectors_of(FileDisk::open(rt, "shared.img"));
    [sectors_of(first), sectors_of(second), third]
}

// The same of a file of four sectors.
fn made_and_read_by_two<R: Files<File = File> + Alloc<A = Global>>(
    rt: &R,
) -> Result<(u64, [Result<u64, Fault>; 3]), Fault> {
    let sectors = sectors_of(FileDisk::create(rt, "shared.img", 4))?;
    removed(rt, "shared.img", Ok((sectors, read_by_two(rt))))
}

// What is told of a file that is opened to read while it is written, of one that is absent and of a directory, and how many sectors the first one has.
fn read_beside_a_writer<R: Files<File = File> + Alloc<A = Global>>(
    rt: &R,
) -> Result<[Result<u64, Fault>; 4], Fault> {
    let disk = FileDisk::create(rt, "written.img", 4);
    let written = sectors_of(FileDisk::open_to_read(rt, "written.img"));
    let absent = sectors_of(FileDisk::open_to_read(rt, "unwritten.img"));
    let folder = sectors_of(FileDisk::open_to_read(rt, "."));
    let sectors = sectors_of(disk);
    removed(rt, "written.img", Ok([written, absent, folder, sectors]))
}

// A file is one disk's alone: another one neither opens it, nor sets its length, nor reads it. It is free behind that disk, and disks that are opened to
// read share it.
#[test]
fn a_file_is_one_disk_at_a_time(rt: HostRuntime) {
    let alone = (beside_another(&rt), read_beside_a_writer(&rt));
    let wanted = [Err(Fault), Err(Fault), Ok(8 * 512), Ok(8)];
    assert!(rt; alone == (Ok(wanted), Ok([Err(Fault), Err(Fault), Err(Fault), Ok(4)])));
    let shared = (made_then_opened(&rt), made_and_read_by_two(&rt));
    assert!(rt; shared == (Ok([8, 8]), Ok((4, [Ok(4), Ok(4), Err(Fault)]))));
}
