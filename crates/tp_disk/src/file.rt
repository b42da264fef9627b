//! A disk over a file. Whether a file gives back what was written is outside of every proof, so such a disk claims nothing of itself: in
//! its state it is not honest, and no promise on contents speaks of it. What is proved of contents is proved of each honest disk; that files are such is a
//! premise of those who use them.
ghost use Rattle.std.specs.Prelude.{◌≡◌, ◌<◌, ◌≤◌, ◌-◌, ◌^◌, IfOk, OnOk, is_ok, false};
ghost use Rattle.tp_disk.specs.HandedOut.{IsHandedOut};
ghost use Rattle.tp_disk.specs.Syncs.{writes_of};
ghost use Rattle.tp_model.specs.Disk.{IsSettled, IsWellFormed, after_flush};

use crate::blank::zeros;
use crate::disk::{MOST_SECTORS, SECTOR};
use crate::image_file::ImageFile;
use crate::opening::{
    LockedFile, OpenError, OpenStep, open_or_make, open_there, open_there_to_read, sync_folder,
};
use crate::refused::RefusedReads;
use crate::shadow::{Shadow, Step};
use crate::syncs::{Synced, Syncs};
use crate::trouble::{DiskCall, Trouble, note_trouble};
use crate::{Disk, Fault, SharedDisk};
use std::alloc::Global;
use std::fs::File;
use std::io;
use std::rt::Files;

/// The most bytes that one call of the system writes. Linux keeps what one call wrote in a folio of that size where it can, and a later write of a part of a folio looks at
/// all of it: 4 KiB take some 17 microseconds in one of a MiB, and 3 in one of 64 KiB. Long writes are no slower in such pieces.
const MOST_WRITTEN: usize = 65_536;

/// The bytes of a page of the system's cache, and its sectors.
const PAGE: usize = 4096;

const PAGE_SECTORS: u64 = 8;

/// A disk over a regular file or a block device: sector i is the 512 bytes from byte 512 * i on. Reads and writes are at their places in the
/// file, with no buffer between, and a flush waits until the system has brought the data to the device, unless nothing was written since the last sync that
/// did. A long write is made by calls of the system of 64 KiB each. A call that the system cuts short or interrupts goes on; one that it refuses is a `Fault`,
/// and [`FileDisk::trouble`] tells what the system said of it. Once a sync was refused, each flush fails: the system forgets what it could not write.
///
/// A shared read that the system refused is remembered: `read` of the same bytes then is a `Fault`
/// without a second call of the system, unless a write replaced some of them in between.
///
/// What a killed program wrote may still be in the system's memory alone, where a power cut loses it. So opening waits until all of the file is on the
/// device: from then on a stop leaves what reads give.
///
/// Opening then drops the system's cached pages of the file, so that reads come from the device. A
/// cached page may differ from the device in two cases: an earlier sync failed, or another host wrote
/// the file on shared storage.
///
/// While the disk is open it holds the file's exclusive lock, or the shared one where it was opened to read, by which programs
/// that open images through a `FileDisk` keep out of each other's way. It never has one of descriptors 0 to 2, to which a program writes what it
/// tells.
#[derive(Drop)]
pub struct FileDisk<F: ImageFile + Drop> {
    file: F,
    size: u64,
    shadow: Shadow,
    trouble: Option<Trouble>,
    refused: RefusedReads,
    /// How many writes there were. It stays at the greatest `u64`.
    writes: u64,
    /// How many bytes were written since the last flush.
    unsynced: u64,
    /// The last sync that opening or a flush asked for.
    last: Synced,
    syncs: Syncs,
    ghost size_is: { shadow.state.size ≡ size },
    ghost unclaimed: { shadow.state.is_honest ≡ false },
    ghost well_formed: { IsWellFormed shadow.state.size shadow.state.cells },
    ghost no_later: { last.writes ≤ writes },
    // A write that is not counted would leave a sector that is not kept.
    ghost counted: { last.writes ≡ writes → writes < 2 ^ 64 - 1 → IsSettled shadow.state.cells },
}

impl FileDisk<LockedFile> {
    /// The disk over an existing file, or over a whole block device. A part of a sector at the end is not counted. Refused where the system refuses, as for a missing file or one that
    /// cannot be synced or dropped from the page cache, where it is neither a regular file nor a block
    /// device, another open holds its lock, or it would have one of descriptors 0 to 2, and where there
    /// are more than 2^54 sectors.
    pub fn open<R>(rt: &R, path: &str) -> Result<FileDisk<LockedFile>, OpenError>
    where
        R: Files<File = File> + Alloc<A = Global>,
        ensures { IfOk result (λ disk. IsHandedOut disk.shadow.state) }
    {
        let file = LockedFile::exclusive(open_there(rt, path)?)?;
        let size = file.length()?;
        FileDisk::over(rt.alloc(), file, size / SECTOR)
    }

    /// The same disk, to read alone: it needs no right to write the file, and each write of it is a `Fault`. Any number of such
    /// disks may be open over one file, and none beside a disk of `open` or `create`. Refused as `open`.
    pub fn open_to_read<R>(rt: &R, path: &str) -> Result<FileDisk<LockedFile>, OpenError>
    where
        R: Files<File = File> + Alloc<A = Global>,
        ensures { IfOk result (λ disk. IsHandedOut disk.shadow.state) }
    {
        let file = LockedFile::shared(open_there_to_read(rt, path)?)?;
        let size = file.length()?;
        FileDisk::over(rt.alloc(), file, size / SECTOR)
    }

    /// A disk of this many sectors. Makes the file where it is absent, with rights for its owner alone, and then also waits until its folder is on the
    /// device; and sets its length: what an existing file held stays up to that length, and what is added is zero. Refused as `open`, where the lock
    /// is tested before the length is set, for a block device, whose length is its own, and for more than 2^54 sectors, for which no file is touched. A link to a file that is absent is refused,
    /// since that file's folder is another one.
    pub fn create<R>(rt: &R, path: &str, sectors: u64) -> Result<FileDisk<LockedFile>, OpenError>
    where
        R: Files<File = File> + Alloc<A = Global>,
        ensures size { IfOk result (λ disk. disk.shadow.state.size ≡ sectors) }
        ensures untouched { IfOk result (λ disk. IsHandedOut disk.shadow.state) }
    {
        if sectors > MOST_SECTORS {
            return Err(OpenError::TooLarge);
        }
        let (file, is_new) = open_or_make(rt, path)?;
        let file = LockedFile::exclusive(file)?;
        file.set_length(SECTOR * sectors)?;
        let disk = FileDisk::over(rt.alloc(), file, sectors)?;
        if is_new {
            sync_folder(rt, path)?;
        }
        Ok(disk)
    }
}

impl<F: ImageFile + Drop> FileDisk<F> {
    /// Makes a disk of this many sectors over a file of which nothing was read yet. It syncs the file,
    /// and then drops its cached pages.
    ///
    /// Errors: `TooLarge` for more than 2^54 sectors; `System` if the file refuses to be synced or
    /// dropped from the page cache.
    pub fn over(alloc: Global, file: F, size: u64) -> Result<FileDisk<F>, OpenError>
        ensures size { IfOk result (λ disk. disk.shadow.state.size ≡ size) }
        ensures untouched { IfOk result (λ disk. IsHandedOut disk.shadow.state) }
    {
        if size > MOST_SECTORS {
            return Err(OpenError::TooLarge);
        }
        let last = OpenStep::Sync.tried(Synced::at_opening(&file))?;
        OpenStep::DropCached.tried(file.drop_cached())?;
        let mut shadow = Shadow::new();
        shadow.note(&Step::Unclaimed { sectors: size }, &[]);
        Ok(FileDisk {
            file,
            size,
            shadow,
            trouble: None,
            refused: RefusedReads::none(alloc),
            writes: 0,
            unsynced: 0,
            last,
            syncs: Syncs::none(),
        })
    }

    /// The last call of the system that failed, if one did: what stands behind a `Fault`.
    pub fn trouble(&self) -> Option<Trouble> {
        self.trouble
    }

    /// A sync behind the last write.
    fn synced(&self) -> io::Result<Synced>
        ensures { IfOk result (λ synced. writes_of synced ≡ self.now.writes) }
    {
        if self.last.is_behind(self.writes) {
            return Ok(self.last);
        }
        self.syncs.behind(&self.file, self.writes)
    }
}

/// The bytes without the pages of zeros at their start.
fn without_first_zeros(bytes: &[u8]) -> &[u8] {
    let page = zeros(PAGE_SECTORS);
    let mut rest = bytes;
    for _ in 0..bytes.len() / PAGE {
        match rest.strip_prefix(page) {
            None => break,
            Some(behind) => rest = behind,
        }
    }
    rest
}

/// The bytes without the pages of zeros at their end.
fn without_last_zeros(bytes: &[u8]) -> &[u8] {
    let page = zeros(PAGE_SECTORS);
    let mut rest = bytes;
    for _ in 0..bytes.len() / PAGE {
        match rest.strip_suffix(page) {
            None => break,
            Some(before) => rest = before,
        }
    }
    rest
}

/// Writes a piece to a file from a byte of it on. If all of it is a hole of the file, the pages of zeros at
/// its start and its end stay holes.
fn write_piece<F: ImageFile>(file: &F, at: u64, piece: &[u8]) -> io::Result<()> {
    let rest = without_first_zeros(piece);
    let data = without_last_zeros(rest);
    if data.len() < piece.len() && file.is_hole(at, piece.len() as u64) {
        let skipped = piece.len().saturating_sub(rest.len()) as u64;
        return file.write_all_at(data, at.saturating_add(skipped));
    }
    file.write_all_at(piece, at)
}

/// Writes bytes to a file from a byte of it on, in pieces.
fn write_pieces<F: ImageFile>(file: &F, mut at: u64, bytes: &[u8]) -> io::Result<()> {
    for piece in bytes.chunks(MOST_WRITTEN) {
        write_piece(file, at, piece)?;
        at = at.saturating_add(piece.len() as u64);
    }
    Ok(())
}

impl<F: ImageFile + Drop> Disk for FileDisk<F> {
    ghost state = { λ disk. disk.shadow.state };

    ghost well_formed = { λ disk. disk.well_formed };

    fn sectors(&self) -> u64 {
        self.size
    }

    fn read(&mut self, at: u64, out: &mut [u8]) -> Result<(), Fault> {
        let done = match self.refused.take(at, out.len()) {
            Some(error) => Err(error),
            None => self.file.read_exact_at(out, SECTOR * at),
        };
        let ok = done.is_ok();
        note_trouble(&mut self.trouble, DiskCall::Read { at }, done);
        self.shadow.note(&Step::NoChange { ok }, &[]);
        if ok { Ok(()) } else { Err(Fault) }
    }

    fn write(&mut self, at: u64, bytes: &[u8]) -> Result<(), Fault> {
        self.writes = self.writes.saturating_add(1);
        self.unsynced = self.unsynced.saturating_add(bytes.len() as u64);
        self.refused.forget(at, bytes.len());
        let done = write_pieces(&self.file, SECTOR * at, bytes);
        let ok = done.is_ok();
        note_trouble(&mut self.trouble, DiskCall::Write { at }, done);
        self.shadow.note(&Step::Write { at, ok }, bytes);
        if ok { Ok(()) } else { Err(Fault) }
    }

    /// It makes no call of the system where the file was synced behind its last write.
    fn flush(&mut self) -> Result<(), Fault>
        ensures state { self.new.shadow.state ≡ after_flush (is_ok result) self.old.shadow.state }
        ensures synced { OnOk result (writes_of self.new.last ≡ self.new.writes) }
        ensures writes { self.new.writes ≡ self.old.writes }
    {
        match self.synced() {
            Ok(synced) => {
                self.last = synced;
                self.unsynced = 0;
                self.shadow.note(&Step::Flush { ok: true }, &[]);
                Ok(())
            }
            Err(error) => {
                note_trouble(&mut self.trouble, DiskCall::Flush, Err(error));
                self.shadow.note(&Step::Flush { ok: false }, &[]);
                Err(Fault)
            }
        }
    }
}

impl<F: ImageFile + Drop> SharedDisk for FileDisk<F> {
    fn read_shared(&self, at: u64, out: &mut [u8]) -> bool {
        match self.file.read_exact_at(out, SECTOR * at) {
            Ok(()) => true,
            Err(error) => {
                self.refused.note(at, out.len(), error);
                false
            }
        }
    }

    fn sync_ahead(&self, least: u64) {
        if self.unsynced >= least && !self.last.is_behind(self.writes) {
            self.syncs.ahead(&self.file, self.writes);
        }
    }
}
