//! Files whose length is no image's.

use crate::images::{SECTORS, bytes_of_image};
use std::alloc::Global;
use std::fs::{File, OpenOptions, remove_file};
use std::rt::Files;
use std::test::Fail;
use tp_check::check;
use tp_disk::{Disk, Fault, FileDisk, LockedFile};
use tp_meta::Meta;
use tp_model::Refusal;
use tp_pool::Pool;

/// What opening and a check tell of a file: 0, or the number of a refusal.
type Told = [u8; 2];

/// Makes a file of these sectors.
fn put_file(disk: &mut FileDisk<LockedFile>, bytes: &[u8]) -> Result<(), Fault> {
    if bytes.len() % 512 != 0 || bytes.len() as u64 / 512 > disk.sectors() {
        return Err(Fault);
    }
    disk.write(0, bytes)?;
    disk.flush()
}

fn make_file<R: Files<File = File> + Alloc<A = Global>>(
    rt: &R,
    name: &str,
    bytes: &[u8],
) -> Result<(), Fault> {
    match FileDisk::create(rt, name, SECTORS) {
        Ok(mut disk) => put_file(&mut disk, bytes),
        Err(_) => Err(Fault),
    }
}

/// Gives a file this length.
fn cut<R: Files<File = File>>(rt: &R, name: &str, bytes: u64) -> Result<(), Fail> {
    let file = OpenOptions::new().write(true).open(rt, name)?;
    file.set_len(bytes)?;
    Ok(())
}

fn told_of_disk(alloc: Global, disk: FileDisk<LockedFile>) -> Told {
    let mut disk = disk;
    let checked = match check(alloc, &mut disk) {
        Ok(()) => 0,
        Err(error) => error.refusal().number(),
    };
    match Pool::<FileDisk<LockedFile>, Meta>::open(alloc, disk) {
        Ok(_) => [0, checked],
        Err((refusal, _)) => [refusal.number(), checked],
    }
}

/// The same of a file that is given this length.
fn told_of_length<R: Files<File = File> + Alloc<A = Global>>(
    rt: &R,
    alloc: Global,
    name: &str,
    bytes: u64,
) -> Result<Told, Fail> {
    cut(rt, name, bytes)?;
    match FileDisk::open(rt, name) {
        Ok(disk) => Ok(told_of_disk(alloc, disk)),
        Err(_) => Err(Fail::from(Refusal::Fault)),
    }
}

/// The same of a file that has a byte more than the image, is whole, has a byte less; then has one byte, and none.
fn told_of_each<R: Files<File = File> + Alloc<A = Global>>(
    rt: &R,
    alloc: Global,
    name: &str,
) -> Result<[Told; 5], Fail> {
    Ok([
        told_of_length(rt, alloc, name, 512 * SECTORS + 1)?,
        told_of_length(rt, alloc, name, 512 * SECTORS)?,
        told_of_length(rt, alloc, name, 512 * SECTORS - 1)?,
        told_of_length(rt, alloc, name, 1)?,
        told_of_length(rt, alloc, name, 0)?,
    ])
}

/// Makes the image a file.
fn make_image<R: Files<File = File> + Alloc<A = Global>>(
    rt: &R,
    alloc: Global,
    name: &str,
) -> Result<(), Fail> {
    let bytes = bytes_of_image(alloc)?;
    Ok(make_file(rt, name, &bytes)?)
}

/// What is told of the image as a file of these lengths.
fn told_of_lengths<R: Files<File = File> + Alloc<A = Global>>(
    rt: &R,
    alloc: Global,
) -> Result<[Told; 5], Fail> {
    make_image(rt, alloc, "odd.img")?;
    let told = told_of_each(rt, alloc, "odd.img")?;
    remove_file(rt, "odd.img")?;
    Ok(told)
}

#[test]
fn odd_files_are_told(rt: HostRuntime) -> Result<(), Fail> {
    let told = told_of_lengths(&rt, rt.alloc())?;
    assert_eq!(rt; told, [[0, 0], [0, 0], [2, 30], [3, 30], [3, 30]]);
    Ok(())
}
