//! A disk in memory, for tests and for trying what a stop leaves.
ghost use Rattle.std.specs.Prelude.{ℕ, List, Option, None, [], ◌∷◌, ◌≡◌, ◌≢◌, ◌⊎◌, ◌≤◌, ◌<◌, ◌^◌, ◌+◌, ◌*◌, ◌++◌, length, take, drop, replicate, slice_get, slice_index_or, true, false, IfOk, ◌/◌, ◌↔◌, is_ok, IsErr, IsTrue, OnOk, ◌%◌, OnErr};
ghost use Rattle.std.specs.Bool.{OnTrue, OnFalse};
ghost use Rattle.std.specs.List.{All, concat};
ghost use Rattle.tp_model.specs.Sectors.{zero_sector, chopped, sectors_of, bytes_at};
ghost use Rattle.tp_model.specs.Disk.{Cell, IsWellFormed, fresh, settled, seen, written, after_read, Writes, after_write, after_flush};
ghost use Rattle.tp_model.specs.DiskStops.{AfterStop};
ghost use Rattle.tp_disk.specs.Log.{IsWithin, replayed};
ghost use Rattle.tp_disk.specs.Picks.{picked};
ghost use Rattle.tp_disk.specs.Picking.{Picking};

use crate::calls::Calls;
use crate::disk::MOST_SECTORS;
use crate::shadow::{Shadow, Step};
use crate::tally::{count, counted};
use crate::watch::Watch;
use crate::{Disk, Fault, SharedDisk};
use std::alloc::{AllocError, Global};

const SECTOR: usize = 512;

/// A write, of whole sectors.
#[derive(Drop)]
pub struct Logged {
    at: u64,
    bytes: Vec<u8>,
}

/// An honest disk in memory. Besides what reads give it holds the image of the last flush that succeeded and the
/// writes since, so that `stop` can leave all that a stop may leave. What it holds grows with each write until a
/// flush succeeds.
#[derive(Drop)]
pub struct MemDisk {
    alloc: Global,
    size: u64,
    /// The image of the last flush that succeeded.
    kept: Vec<u8>,
    /// What reads give.
    newest: Vec<u8>,
    /// The writes since that flush, the oldest first.
    writes: Vec<Logged>,
    calls: Calls,
    watch: Watch,
    /// For each sector how many calls of `read` had it, and how many of `write`.
    read_counts: Vec<u64>,
    write_counts: Vec<u64>,
    shadow: Shadow,
    ghost size_is: { shadow.state.size ≡ size },
    ghost honest: { shadow.state.is_honest ≡ true },
    ghost well_formed: { IsWellFormed shadow.state.size shadow.state.cells },
    ghost cells_are: { shadow.state.cells ≡ replayed writes.items (settled (chopped size kept.items)) },
    ghost within: { All (IsWithin size) writes.items },
    ghost kept_long: { length kept.items ≡ 512 * size },
    ghost newest_is: { newest.items ≡ concat (seen shadow.state.cells) },
    ghost newest_long: { length newest.items ≡ 512 * size },
    ghost reads_long: { length read_counts.items ≡ size },
    ghost writes_long: { length write_counts.items ≡ size },
}

impl MemDisk {
    ghost use Rattle.tp_disk.specs.Memory.{mem_state, calls_of, watch_of, reads_of, writes_of};
    ghost use Rattle.tp_disk.specs.Calls.{no_calls};
    ghost use Rattle.tp_disk.specs.Watch.{watch_on};
    ghost use Rattle.tp_disk.specs.Tally.{tally_at};

    /// A disk of zeros of this many sectors, or `AllocError` where there is no memory for it, as for more than 2^54.
    pub fn new(alloc: Global, sectors: u64) -> Result<MemDisk, AllocError>
        ensures { IfOk result (λ disk. (mem_state disk ≡ fresh (replicate sectors zero_sector)) × (calls_of disk ≡ no_calls) × (watch_of disk ≡ watch_on 0)
            × (reads_of disk ≡ replicate sectors 0) × (writes_of disk ≡ replicate sectors 0)) }
    {
        if sectors > MOST_SECTORS {
            return Err(AllocError);
        }
        let kept = Vec::from_elem(alloc, 0, SECTOR * sectors as usize)?;
        MemDisk::begin(alloc, sectors, kept)
    }

    // A disk with this image, in whole sectors.
    fn begin(alloc: Global, size: u64, kept: Vec<u8>) -> Result<MemDisk, AllocError>
        requires long { length kept.items ≡ 512 * size }
        requires fits { size ≤ 2 ^ 54 }
        ensures { IfOk result (λ disk. (mem_state disk ≡ fresh (chopped size kept.items)) × (calls_of disk ≡ no_calls) × (watch_of disk ≡ watch_on 0)
            × (reads_of disk ≡ replicate size 0) × (writes_of disk ≡ replicate size 0)) }
    {
        let newest = Vec::from_slice(alloc, &kept)?;
        let read_counts = Vec::from_elem(alloc, 0, size as usize)?;
        let write_counts = Vec::from_elem(alloc, 0, size as usize)?;
        let mut shadow = Shadow::new();
        shadow.note(&Step::Image { sectors: size }, &kept);
        Ok(MemDisk {
            alloc,
            size,
            kept,
            newest,
            writes: Vec::new(alloc),
            calls: Calls::none(),
            watch: Watch::on(0),
            read_counts,
            write_counts,
            shadow,
        })
    }

    /// The number of disk calls so far, those that failed too. It stays at the greatest `u64`.
    pub fn calls(&self) -> u64
        ensures { result ≡ (calls_of self.now).count }
    {
        self.calls.count
    }

    /// From now on the disk calls with numbers from `first` to `last`, counted from 1, fail, and those of an earlier
    /// `fail` do not. A write that fails so leaves its new values as the newest; a read or a flush changes nothing.
    pub fn fail(&mut self, first: u64, last: u64)
        ensures state { mem_state self.new ≡ mem_state self.old }
        ensures calls { calls_of self.new ≡ record { count = (calls_of self.old).count; first_to_fail = first; last_to_fail = last } }
        ensures watch { watch_of self.new ≡ watch_of self.old }
        ensures reads { reads_of self.new ≡ reads_of self.old }
        ensures writes { writes_of self.new ≡ writes_of self.old }
    {
        self.calls.first_to_fail = first;
        self.calls.last_to_fail = last;
    }

    /// From now on counts the writes that have this sector in their range, from 0 on; a new disk counts those of sector 0. A
    /// write that fails is counted too.
    pub fn watch(&mut self, sector: u64)
        ensures state { mem_state self.new ≡ mem_state self.old }
        ensures calls { calls_of self.new ≡ calls_of self.old }
        ensures watch { watch_of self.new ≡ watch_on sector }
        ensures reads { reads_of self.new ≡ reads_of self.old }
        ensures writes { writes_of self.new ≡ writes_of self.old }
    {
        self.watch = Watch::on(sector);
    }

    /// How many writes had the watched sector in their range. It stays at the greatest `u64`.
    pub fn watched_writes(&self) -> u64
        ensures { result ≡ (watch_of self.now).writes }
    {
        self.watch.writes
    }

    /// How many calls of `read` had this sector in their range, those that failed too; 0 behind the end of the disk. It stays at
    /// the greatest `u64`.
    pub fn reads(&self, at: u64) -> u64
        ensures { result ≡ tally_at (reads_of self.now) at }
    {
        counted(&self.read_counts, at)
    }

    /// How many calls of `write` had this sector in their range, those that failed too; 0 behind the end of the disk. It stays at
    /// the greatest `u64`.
    pub fn writes(&self, at: u64) -> u64
        ensures { result ≡ tally_at (writes_of self.now) at }
    {
        counted(&self.write_counts, at)
    }

    /// Makes the disk as it is when it is handed out anew: a stop leaves what reads give, and no call was made of it. Calls are counted on.
    pub fn renew(&mut self)
        ensures state { mem_state self.new ≡ fresh (seen (mem_state self.old).cells) }
        ensures calls { calls_of self.new ≡ calls_of self.old }
        ensures watch { watch_of self.new ≡ watch_of self.old }
        ensures reads { reads_of self.new ≡ reads_of self.old }
        ensures writes { writes_of self.new ≡ writes_of self.old }
    {
        self.kept.copy_from_slice(&self.newest);
        self.writes = Vec::new(self.alloc);
        self.shadow
            .note(&Step::Image { sectors: self.size }, &self.newest);
    }

    /// A disk as a stop leaves it: sector i holds entry `picks[i]` of its kept value followed by those written since,
    /// and the last one where there is no such entry or pick. `AllocError` where there is no memory for it. It takes
    /// time by the size of the disk and the bytes that were written since the last flush.
    pub fn stop(&self, alloc: Global, picks: &[u64]) -> Result<MemDisk, AllocError>
        ensures { IfOk result (λ disk. (mem_state disk ≡ fresh (picked (mem_state self.now).cells picks.now)) × (calls_of disk ≡ no_calls) × (watch_of disk ≡ watch_on 0)
            × (reads_of disk ≡ replicate (mem_state self.now).size 0) × (writes_of disk ≡ replicate (mem_state self.now).size 0)) }
    {
        let mut image = Vec::from_slice(alloc, &self.kept)?;
        let mut left = all_picks(alloc, self.size, picks)?;
        for write in &self.writes {
            take_write(&mut image, &mut left, write.at as usize, &write.bytes);
        }
        MemDisk::begin(alloc, self.size, image)
    }
}

/// What `stop` leaves is what a stop may leave: each list of picks gives such an image, and each image has its picks.
pub fn picks_are_stops()
    ensures may { (cells : List Cell) (picks : List ℕ) → AfterStop cells (picked cells picks) }
    ensures all { (cells : List Cell) (image : List (List ℕ)) → AfterStop cells image → (picks : List ℕ) × (picked cells picks ≡ image) }
{}

// The pick of each sector.
fn all_picks(alloc: Global, size: u64, picks: &[u64]) -> Result<Vec<Option<u64>>, AllocError>
    ensures { IfOk result (λ left. (length left.items ≡ size) × ((i : ℕ) → i < size → slice_index_or left.items i None ≡ slice_get picks.now i)) }
{
    let mut left = Vec::with_capacity(alloc, size as usize)?;
    for i in 0..size {
        left.push(pick_of(picks, i as usize))?;
    }
    Ok(left)
}

fn pick_of(picks: &[u64], i: usize) -> Option<u64>
    ensures { result ≡ slice_get picks.now i }
{
    picks.get(i).copied()
}

// Follows the picks over a write from sector `at` on.
fn take_write(image: &mut [u8], left: &mut [Option<u64>], at: usize, bytes: &[u8])
    requires many { at + length bytes.now / 512 ≤ length left.old }
    requires long { length image.old ≡ 512 * length left.old }
    ensures image { length image.new ≡ length image.old }
    ensures left { length left.new ≡ length left.old }
    ensures picking { (picks : List ℕ) (cells : List Cell) → Picking picks cells image.old left.old
        → Picking picks (written at (sectors_of bytes.now) cells) image.new left.new }
{
    for k in 0..bytes.len() / SECTOR {
        take_sector(image, left, at + k, &bytes[SECTOR * k..SECTOR * k + SECTOR]);
    }
}

// Takes a later value of sector i, where its pick is not yet reached.
fn take_sector(image: &mut [u8], left: &mut [Option<u64>], i: usize, value: &[u8])
    requires many { i < length left.old }
    requires long { length image.old ≡ 512 * length left.old }
    requires whole { length value.now ≡ 512 }
    ensures image { length image.new ≡ length image.old }
    ensures left { length left.new ≡ length left.old }
    ensures picking { (picks : List ℕ) (cells : List Cell) → Picking picks cells image.old left.old
        → Picking picks (written i (value.now ∷ []) cells) image.new left.new }
{
    match left[i] {
        Some(more) => {
            if more > 0 {
                left[i] = Some(more - 1);
                put(image, SECTOR * i, value);
            }
        }
        None => put(image, SECTOR * i, value),
    }
}

impl SharedDisk for MemDisk {
    ghost use Rattle.tp_disk.specs.Memory.{mem_state};

    /// It always has them, and neither counts nor fails.
    fn read_shared(&self, at: u64, out: &mut [u8]) -> bool
        requires whole { length out.old % 512 ≡ 0 }
        requires within { at + length out.old / 512 ≤ (mem_state self.now).size }
        ensures bytes { IsTrue (mem_state self.now).is_honest → out.new ≡ bytes_at (seen (mem_state self.now).cells) at (length out.old / 512) }
        ensures told { IsTrue result }
    {
        let begin = SECTOR * at as usize;
        let newest = &self.newest[begin..begin + out.len()];
        out.copy_from_slice(newest);
        true
    }

    /// There is no device.
    fn sync_ahead(&self, _least: u64) {}
}

impl Disk for MemDisk {
    ghost use Rattle.tp_disk.specs.Memory.{mem_state, calls_of, watch_of, reads_of, writes_of};
    ghost use Rattle.tp_disk.specs.Calls.{after_call, NextFails};
    ghost use Rattle.tp_disk.specs.Tally.{Counted};
    ghost use Rattle.tp_disk.specs.Watch.{watch_write};

    ghost state = { mem_state };

    ghost well_formed = { λ disk. disk.well_formed };

    fn sectors(&self) -> u64 {
        self.size
    }

    /// It fails where it is to fail, and nowhere else.
    fn read(&mut self, at: u64, out: &mut [u8]) -> Result<(), Fault>
        requires whole { length out.old % 512 ≡ 0 }
        requires within { at + length out.old / 512 ≤ (mem_state self.old).size }
        ensures state { mem_state self.new ≡ after_read (is_ok result) (mem_state self.old) }
        ensures bytes { OnOk result (IsTrue (mem_state self.old).is_honest
            → out.new ≡ bytes_at (seen (mem_state self.old).cells) at (length out.old / 512)) }
        ensures calls { calls_of self.new ≡ after_call (calls_of self.old) }
        ensures watch { watch_of self.new ≡ watch_of self.old }
        ensures reads { Counted at (length out.old / 512) (reads_of self.old) (reads_of self.new) }
        ensures writes { writes_of self.new ≡ writes_of self.old }
        ensures fails { IsErr result ↔ NextFails (calls_of self.old) }
    {
        count(&mut self.read_counts, at, (out.len() / SECTOR) as u64);
        let ok = !self.calls.next_fails();
        self.shadow.note(&Step::NoChange { ok }, &[]);
        if !ok {
            return Err(Fault);
        }
        let from = SECTOR * at as usize;
        out.copy_from_slice(&self.newest[from..from + out.len()]);
        Ok(())
    }

    /// It fails where it is to fail, and then its values are the newest; and where there is no memory to hold them,
    /// and then no sector is changed.
    fn write(&mut self, at: u64, bytes: &[u8]) -> Result<(), Fault>
        requires whole { length bytes.now % 512 ≡ 0 }
        requires within { at + length bytes.now / 512 ≤ (mem_state self.old).size }
        ensures any { Writes at (sectors_of bytes.now) (mem_state self.old) (mem_state self.new) }
        ensures ok { OnOk result (mem_state self.new ≡ after_write at (sectors_of bytes.now) (mem_state self.old)) }
        ensures err { OnErr result ((mem_state self.new).failures ≡ (mem_state self.old).failures + 1) }
        ensures calls { calls_of self.new ≡ after_call (calls_of self.old) }
        ensures watch { watch_of self.new ≡ watch_write at (length bytes.now / 512) (watch_of self.old) }
        ensures reads { reads_of self.new ≡ reads_of self.old }
        ensures writes { Counted at (length bytes.now / 512) (writes_of self.old) (writes_of self.new) }
        ensures fails { NextFails (calls_of self.old) → IsErr result }
        ensures left { OnErr result ((NextFails (calls_of self.old)
            × (mem_state self.new ≡ after_read false (after_write at (sectors_of bytes.now) (mem_state self.old))))
            ⊎ (mem_state self.new ≡ after_read false (mem_state self.old))) }
    {
        self.watch.note_write(at, (bytes.len() / SECTOR) as u64);
        count(&mut self.write_counts, at, (bytes.len() / SECTOR) as u64);
        let fails = self.calls.next_fails();
        if !log_write(self.alloc, &mut self.writes, at, bytes) {
            self.shadow.note(&Step::NoChange { ok: false }, &[]);
            return Err(Fault);
        }
        put(&mut self.newest, SECTOR * at as usize, bytes);
        self.shadow.note(&Step::Write { at, ok: !fails }, bytes);
        if fails { Err(Fault) } else { Ok(()) }
    }

    /// It fails where it is to fail, and nowhere else.
    fn flush(&mut self) -> Result<(), Fault>
        ensures state { mem_state self.new ≡ after_flush (is_ok result) (mem_state self.old) }
        ensures calls { calls_of self.new ≡ after_call (calls_of self.old) }
        ensures watch { watch_of self.new ≡ watch_of self.old }
        ensures reads { reads_of self.new ≡ reads_of self.old }
        ensures writes { writes_of self.new ≡ writes_of self.old }
        ensures fails { IsErr result ↔ NextFails (calls_of self.old) }
    {
        if self.calls.next_fails() {
            self.shadow.note(&Step::Flush { ok: false }, &[]);
            return Err(Fault);
        }
        settle(&mut self.kept, &self.writes);
        self.writes.clear();
        self.shadow.note(&Step::Flush { ok: true }, &[]);
        Ok(())
    }
}

// Holds a write, where there is memory for it.
fn log_write(alloc: Global, writes: &mut Vec<Logged>, at: u64, bytes: &[u8]) -> bool
    ensures held { OnTrue result ((cells : List Cell) → replayed writes.new.items cells ≡ written at (sectors_of bytes.now) (replayed writes.old.items cells)) }
    ensures within { OnTrue result ((size : ℕ) → All (IsWithin size) writes.old.items → length bytes.now % 512 ≡ 0
        → at + length bytes.now / 512 ≤ size → All (IsWithin size) writes.new.items) }
    ensures full { OnFalse result (writes.new.items ≡ writes.old.items) }
{
    match Vec::from_slice(alloc, bytes) {
        Ok(bytes) => writes.push(Logged { at, bytes }).is_ok(),
        Err(_) => false,
    }
}

// Brings the image up to date with the writes.
fn settle(image: &mut [u8], writes: &[Logged])
    requires within { All (IsWithin (length image.old / 512)) writes.now }
    requires whole { length image.old % 512 ≡ 0 }
    requires fits { length image.old ≤ 2 ^ 63 }
    ensures length { length image.new ≡ length image.old }
    ensures image { image.new ≡ concat (seen (replayed writes.now (settled (sectors_of image.old)))) }
{
    for write in writes {
        put(image, SECTOR * write.at as usize, &write.bytes);
    }
}

fn put(image: &mut [u8], from: usize, bytes: &[u8])
    requires { from + length bytes.now ≤ length image.old }
    ensures length { length image.new ≡ length image.old }
    ensures image { image.new ≡ take from image.old ++ bytes.now ++ drop (from + length bytes.now) image.old }
{
    image[from..from + bytes.len()].copy_from_slice(bytes);
}
