//! Disks in memory, by name.
ghost use Rattle.std.specs.Prelude.{◌≡◌, IfNone, IfSome, List, None, Some, length};
ghost use Rattle.std.specs.Bool.{OnTrue, OnFalse};
ghost use Rattle.tp_images.specs.Deeds.{Deed};
ghost use Rattle.tp_images.specs.Memory.{AreKept, Changes, IsNotBefore, IsPlace, Puts, found};

use std::alloc::Global;
use tp_disk::{Disk, MemDisk};

/// A name, and its disk where that is not handed out.
#[derive(Drop)]
pub(crate) struct Stored {
    name: Vec<u8>,
    disk: Option<MemDisk>,
}

impl Stored {
    fn take(&mut self) -> Option<MemDisk>
        ensures name { self.new.name ≡ self.old.name }
        ensures left { self.new.disk ≡ None }
        ensures taken { result ≡ self.old.disk }
    {
        self.disk.take()
    }

    fn put(&mut self, disk: Option<MemDisk>)
        ensures name { self.new.name ≡ self.old.name }
        ensures put { self.new.disk ≡ disk }
    {
        self.disk = disk;
    }

    /// Leaves of the disk what a stop by these picks does. False where there is none, or no memory for it.
    fn stop(&mut self, alloc: Global, picks: &[u64]) -> bool
        ensures name { self.new.name ≡ self.old.name }
        ensures stands { Changes self.old.disk self.new.disk }
    {
        let Some(disk) = &self.disk else {
            return false;
        };
        match disk.stop(alloc, picks) {
            Ok(stopped) => {
                self.disk = Some(stopped);
                true
            }
            Err(_) => false,
        }
    }

    /// Has calls of the disk fail, by their numbers from here on. False where there is none.
    fn fail(&mut self, first: u64, last: u64) -> bool
        ensures name { self.new.name ≡ self.old.name }
        ensures stands { Changes self.old.disk self.new.disk }
    {
        match &mut self.disk {
            Some(disk) => {
                let calls = disk.calls();
                disk.fail(calls.saturating_add(first), calls.saturating_add(last));
                true
            }
            None => false,
        }
    }
}

/// The first place that has a name.
fn place_of(shelf: &[Stored], name: &[u8]) -> Option<usize>
    ensures place { IfSome result (λ i. IsPlace name.now shelf.now i) }
    ensures absent { IfNone result (IsNotBefore name.now shelf.now (length shelf.now)) }
{
    for i in 0..shelf.len() {
        if shelf[i].name.as_slice() == name {
            return Some(i);
        }
    }
    None
}

/// What a name has: no place, or one with its disk or without.
#[derive(Clone, Copy, Debug, PartialEq, Eq)]
pub(crate) enum Place {
    Nowhere,
    HandedOut,
    /// A disk of so many sectors.
    Disk(u64),
}

/// What a name has.
pub(crate) fn look_at(shelf: &[Stored], name: &[u8]) -> Place {
    match place_of(shelf, name) {
        None => Place::Nowhere,
        Some(i) => match &shelf[i].disk {
            None => Place::HandedOut,
            Some(disk) => Place::Disk(disk.sectors()),
        },
    }
}

/// Takes the disk of a name out.
pub(crate) fn take_disk(shelf: &mut Vec<Stored>, name: &[u8]) -> Option<MemDisk>
    ensures taken { result ≡ found name.now shelf.old.items }
    ensures left { Puts name.now None shelf.old.items shelf.new.items }
{
    match place_of(shelf, name) {
        Some(i) => shelf[i].take(),
        None => None,
    }
}

// A name more, where there is memory for it.
fn add(alloc: Global, shelf: &mut Vec<Stored>, name: &[u8], disk: Option<MemDisk>) -> bool
    requires { IsNotBefore name.now shelf.old.items (length shelf.old.items) }
    ensures there { OnTrue result (Puts name.now disk shelf.old.items shelf.new.items) }
    ensures full { OnFalse result (shelf.new.items ≡ shelf.old.items) }
{
    match Vec::from_slice(alloc, name) {
        Ok(name) => shelf.push(Stored { name, disk }).is_ok(),
        Err(_) => false,
    }
}

/// Puts a disk in the place of a name, or holds that place for one that is handed out. False where there is no memory for it.
pub(crate) fn put_disk(
    alloc: Global,
    shelf: &mut Vec<Stored>,
    name: &[u8],
    disk: Option<MemDisk>,
) -> bool
    ensures there { OnTrue result (Puts name.now disk shelf.old.items shelf.new.items) }
    ensures full { OnFalse result (shelf.new.items ≡ shelf.old.items) }
{
    match place_of(shelf, name) {
        Some(i) => {
            shelf[i].put(disk);
            true
        }
        None => add(alloc, shelf, name, disk),
    }
}

/// Leaves of a name's disk what a stop by these picks does. False where there is none, or no memory for it.
pub(crate) fn stop_disk(alloc: Global, shelf: &mut Vec<Stored>, name: &[u8], picks: &[u64]) -> bool
    ensures { (deeds : List Deed) → AreKept deeds shelf.old.items → AreKept deeds shelf.new.items }
{
    match place_of(shelf, name) {
        Some(i) => shelf[i].stop(alloc, picks),
        None => false,
    }
}

/// Has calls of a name's disk fail, by their numbers from here on. False where there is none.
pub(crate) fn fail_disk(shelf: &mut Vec<Stored>, name: &[u8], first: u64, last: u64) -> bool
    ensures { (deeds : List Deed) → AreKept deeds shelf.old.items → AreKept deeds shelf.new.items }
{
    match place_of(shelf, name) {
        Some(i) => shelf[i].fail(first, last),
        None => false,
    }
}
