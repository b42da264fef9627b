//! How often each block of one part of a pool is named: now, and as the last commit kept it.
//!
//! A block is free where both counts are zero: what the last commit names is not handed out before the next one, for
//! a stop may bring that commit back. The counts stand on the disk in one of two areas, as count blocks; a commit
//! writes those of now into the area of its own sequence, and the other area keeps those of the last commit.
//!
//! All memory is taken by `new` and `read`. No other call takes any.
#![tactic(auto)]

mod area;
mod error;
mod lanes;

ghost use Rattle.std.specs.Prelude.{ℕ, ◌≡◌, ◌*◌, ◌+◌, ◌-◌, ◌/◌, ◌<◌, ◌≤◌, ◌^◌, ◌↔◌, ◌⊎◌, All, IfOk, IfErr, OnOk, IsTrue, MatchOption, List, false, length, not, is_err, replicate, set, slice_index, count_by, Err};
ghost use Rattle.std.specs.List.{range_with_len};
ghost use Rattle.tp_model.specs.Geometry.{IsWithinLimits, sectors_of_image};
ghost use Rattle.tp_model.specs.Refusals.{is_fault};
ghost use Rattle.tp_model.specs.Disk.{FaultHasCause, IsSameDisk, after_read, seen};
ghost use Rattle.tp_model.specs.DiskStops.{LeavesOutside, SameOutside};
ghost use Rattle.tp_image.specs.Areas.{HoldsCounts, blocks_of, counts_in, counts_sector, counts_sectors};
ghost use Rattle.tp_counts.specs.Tallies.{AreRuns, AreTouched, is_free_in};
ghost use Rattle.tp_counts.specs.Counts.{DifferMarked, IsFree, IsLeastFree, SameUnmarked, SpellUnmarked, free_count, no_counts, same_counts, used_count, used_in};

pub use error::StoreError;
use lanes::{LANES, used_ahead};
use std::alloc::{AllocError, Global};
use std::marker::Model;
use tp_disk::{Disk, Fault};
use tp_layout::{Part, SlotId};
use tp_model::{Geometry, Refusal};

const BLOCK: usize = 4096;

/// The blocks of a part are taken in runs of so many, of which there are at most `RUNS`. The counts of one run fill one
/// count block.
const RUN: usize = 1024;

const RUNS: usize = 1024;

/// A mark for each count block of a part in an area, by its place there.
pub type BlockMarks = [bool; RUNS];

/// The memory of counts: two lists, and what is kept of each run.
#[derive(Drop)]
struct CountsMemory {
    now: Vec<u32>,
    kept: Vec<u32>,
    free_by_run: Vec<u32>,
    touched: Vec<bool>,
}

impl CountsMemory {
    /// Zeros, and no run touched.
    fn new(alloc: Global, blocks: usize) -> Result<CountsMemory, AllocError>
        ensures now { IfOk result (λ room. room.now.items ≡ replicate blocks 0) }
        ensures kept { IfOk result (λ room. room.kept.items ≡ replicate blocks 0) }
        ensures runs { IfOk result (λ room. length room.free_by_run.items ≡ 1024) }
        ensures touched { IfOk result (λ room. room.touched.items ≡ replicate 1024 false) }
    {
        Ok(CountsMemory {
            now: Vec::from_elem(alloc, 0, blocks)?,
            kept: Vec::from_elem(alloc, 0, blocks)?,
            free_by_run: Vec::from_elem(alloc, 0, RUNS)?,
            touched: Vec::from_elem(alloc, false, RUNS)?,
        })
    }
}

/// The counts of one part, in two lists: now, and in the last commit. Blocks are numbered as in their part.
#[derive(Drop)]
pub struct Counts {
    geometry: Geometry,
    part: Part,
    current: Vec<u32>,
    kept: Vec<u32>,
    /// How many blocks are used now.
    used: usize,
    /// How many blocks are free.
    free: usize,
    /// How many blocks of each run are free.
    free_by_run: Vec<u32>,
    /// The runs in which a count may be another than in the last commit.
    touched: Vec<bool>,
    /// No block below this one is free.
    no_free_below: usize,
    /// No block below this one is used in the last commit alone.
    no_lost_below: usize,
}

impl Model for Counts {
    ghost use Rattle.tp_counts.specs.Counts as values;
    ghost use Rattle.tp_counts.specs.Tallies.{AreKept};
    ghost use Rattle.tp_image.specs.Areas.{blocks_of};

    ghost Value = { values.Counts };

    ghost view = { λ c. record { geometry = c.geometry; part = c.part; now = c.current.items; kept = c.kept.items } };

    ghost invariant = { λ c. AreKept (blocks_of c.geometry c.part) c.current.items c.kept.items c.used c.free c.no_free_below c.no_lost_below c.free_by_run.items c.touched.items };
}

impl Counts {
    /// Counts that are all zero, or `AllocError` where there is no memory for them.
    pub fn new(alloc: Global, geometry: Geometry, part: Part) -> Result<Counts, AllocError>
        ensures { IfOk result (λ counts. counts ≡ no_counts geometry part) }
    {
        let blocks = blocks_of(&geometry, part);
        let room = CountsMemory::new(alloc, blocks)?;
        Ok(Counts::unchanged(geometry, part, room))
    }

    /// The counts of a part that stand in an area of the disk, now and kept alike. It writes nothing.
    ///
    /// It refuses with `Memory` where there is no memory for them, before any disk call; with `Fault` where a read
    /// failed; and with `Damaged` where the area holds no counts of this part, which on an honest disk are the only
    /// blocks for which it says so.
    pub fn read<D: Disk>(
        alloc: Global,
        disk: &mut D,
        geometry: Geometry,
        part: Part,
        area: SlotId,
    ) -> Result<Counts, Refusal>
        requires disk { sectors_of_image geometry ≤ (D.state disk.old).size }
        ensures alike { IfOk result (λ counts. counts ≡ same_counts geometry part counts.now) }
        ensures found { IfOk result (λ counts. IsTrue (D.state disk.old).is_honest → HoldsCounts (seen (D.state disk.old).cells) geometry part area counts.now) }
        ensures damaged { result ≡ Err Refusal.Damaged → IsTrue (D.state disk.old).is_honest
            → (counts : List ℕ) → HoldsCounts (seen (D.state disk.old).cells) geometry part area counts → ⊥ }
        ensures only { IfErr result (λ refusal. (refusal ≡ Refusal.Memory) ⊎ (refusal ≡ Refusal.Fault) ⊎ (refusal ≡ Refusal.Damaged)) }
        ensures state { D.state disk.new ≡ after_read (not (is_fault result)) (D.state disk.old) }
        ensures cause { FaultHasCause (is_fault result) (D.state disk.old) (D.state disk.new) }
    {
        let blocks = blocks_of(&geometry, part);
        let Ok(mut room) = CountsMemory::new(alloc, blocks) else {
            return Err(Refusal::Memory);
        };
        let first = area::counts_start(&geometry, part, area);
        area::read_all(disk, first, &mut room.now, &mut [0; BLOCK])?;
        room.kept.copy_from_slice(&room.now);
        Ok(Counts::unchanged(geometry, part, room))
    }

    /// Marks each count block that has another count now than in the last commit. Of a run in which no count was changed
    /// since then it looks at none.
    pub fn changed_blocks(&self) -> BlockMarks
        ensures same { SameUnmarked self.now.now self.now.kept result }
        ensures differ { DifferMarked self.now.now self.now.kept result }
    {
        changed_among(&self.current, &self.kept, &self.touched)
    }

    /// Writes each count block that is marked into an area of the disk, with the counts of now. The others are to hold
    /// these already. It keeps nothing: that takes a flush.
    ///
    /// At any moment a stop leaves all but this part's sectors of the area as before; after an `Err` some of these are
    /// written, each by itself.
    pub fn write_area<D: Disk>(
        &mut self,
        disk: &mut D,
        area: SlotId,
        marks: &BlockMarks,
    ) -> Result<(), Fault>
        requires disk { sectors_of_image self.old.geometry ≤ (D.state disk.old).size }
        ensures written { OnOk result (SpellUnmarked (seen (D.state disk.old).cells) self.old.geometry self.old.part area self.old.now marks.now
            → HoldsCounts (seen (D.state disk.new).cells) self.old.geometry self.old.part area self.old.now) }
        ensures any_moment { LeavesOutside (counts_sector self.old.geometry self.old.part area) (counts_sectors self.old.geometry self.old.part) (D.state disk.old) (D.state disk.new) }
        ensures outside { SameOutside (counts_sector self.old.geometry self.old.part area) (counts_sectors self.old.geometry self.old.part) (seen (D.state disk.old).cells) (seen (D.state disk.new).cells) }
        ensures same_disk { IsSameDisk (D.state disk.old) (D.state disk.new) }
        ensures cause { FaultHasCause (is_err result) (D.state disk.old) (D.state disk.new) }
        ensures flushes { (D.state disk.new).flushes ≡ (D.state disk.old).flushes }
        ensures unchanged { self.new ≡ self.old }
    {
        let first = area::counts_start(&self.geometry, self.part, area);
        area::write_marked(disk, first, &self.current, marks, &mut [0; BLOCK])
    }

    // Counts that have not changed since the last commit.
    fn unchanged(geometry: Geometry, part: Part, room: CountsMemory) -> Counts
        requires long { length room.now.items ≡ blocks_of geometry part }
        requires same { room.kept.items ≡ room.now.items }
        requires runs { length room.free_by_run.items ≡ 1024 }
        requires touched { room.touched.items ≡ replicate 1024 false }
        ensures { result ≡ same_counts geometry part room.now.items }
    {
        let CountsMemory {
            now,
            kept,
            mut free_by_run,
            touched,
        } = room;
        let blocks = blocks_of(&geometry, part);
        let used = used_among(&now);
        let runs = unused_by_run(&now);
        free_by_run.copy_from_slice(&runs);
        Counts {
            geometry,
            part,
            current: now,
            kept,
            used,
            free: blocks - used,
            free_by_run,
            touched,
            no_free_below: 0,
            no_lost_below: blocks,
        }
    }

    /// How many blocks the part has.
    pub fn blocks(&self) -> u64
        ensures value { result ≡ blocks_of self.now.geometry self.now.part }
        ensures now { length self.now.now ≡ result }
        ensures kept { length self.now.kept ≡ result }
    {
        self.current.len() as u64
    }

    /// How often a block is named now.
    pub fn now(&self, block: u64) -> u32
        requires { block < blocks_of self.now.geometry self.now.part }
        ensures { result ≡ slice_index self.now.now block }
    {
        self.current[block as usize]
    }

    /// How often the last commit names a block.
    pub fn kept(&self, block: u64) -> u32
        requires { block < blocks_of self.now.geometry self.now.part }
        ensures { result ≡ slice_index self.now.kept block }
    {
        self.kept[block as usize]
    }

    /// How many blocks are named now.
    pub fn used_count(&self) -> u64
        ensures { result ≡ used_count self.now }
    {
        self.used as u64
    }

    /// How many blocks are free: named neither now nor by the last commit.
    pub fn free_count(&self) -> u64
        ensures { result ≡ free_count self.now }
    {
        self.free as u64
    }

    /// One name more of a block.
    pub fn inc(&mut self, block: u64)
        requires inside { block < blocks_of self.old.geometry self.old.part }
        requires room { slice_index self.old.now block + 1 < 2 ^ 32 }
        ensures { self.new ≡ record self.old { now = set self.old.now block (slice_index self.old.now block + 1) } }
    {
        let b = block as usize;
        let count = self.current[b];
        self.current[b] = count + 1;
        self.touched[b / RUN] = true;
        if count > 0 {
            return;
        }
        self.used += 1;
        if self.kept[b] > 0 {
            return;
        }
        self.free -= 1;
        self.free_by_run[b / RUN] -= 1;
    }

    /// One name fewer of a block.
    pub fn dec(&mut self, block: u64)
        requires inside { block < blocks_of self.old.geometry self.old.part }
        requires named { 0 < slice_index self.old.now block }
        ensures { self.new ≡ record self.old { now = set self.old.now block (slice_index self.old.now block - 1) } }
    {
        let b = block as usize;
        let left = self.current[b] - 1;
        self.current[b] = left;
        self.touched[b / RUN] = true;
        if left > 0 {
            return;
        }
        self.used -= 1;
        if self.kept[b] > 0 {
            self.no_lost_below = self.no_lost_below.min(b);
            return;
        }
        self.free += 1;
        self.free_by_run[b / RUN] += 1;
        self.no_free_below = self.no_free_below.min(b);
    }

    /// The least block that is free, and `None` only where none is. It is not taken by that: `inc` takes it.
    ///
    /// It looks from the last answer on, or from a smaller block that has become free since, so a row of takes passes
    /// each block once; it looks at 16 blocks at once, and of a run of 1024 blocks in which none is free at one.
    pub fn find_free(&mut self) -> Option<u64>
        ensures found { MatchOption result ((b : ℕ) → IsFree self.old b → ⊥) (λ b. IsLeastFree self.old b) }
        ensures count { MatchOption result (free_count self.old ≡ 0) (λ b. 0 < free_count self.old) }
        ensures unchanged { self.new ≡ self.old }
    {
        let block = least_free(
            &self.current,
            &self.kept,
            &self.free_by_run,
            self.no_free_below,
        );
        self.no_free_below = block;
        if block >= self.current.len() {
            return None;
        }
        Some(block as u64)
    }

    /// A commit was kept: its counts are those of now. It copies the runs in which a count was changed.
    pub fn keep(&mut self)
        ensures { self.new ≡ same_counts self.old.geometry self.old.part self.old.now }
    {
        keep_touched(
            &self.current,
            &mut self.kept,
            &mut self.free_by_run,
            &self.touched,
        );
        self.free = self.current.len() - self.used;
        untouch(&mut self.touched);
        self.no_free_below = self.no_free_below.min(self.no_lost_below);
        self.no_lost_below = self.current.len();
    }
}

// How many blocks a part has.
fn blocks_of(geometry: &Geometry, part: Part) -> usize
    ensures value { result ≡ blocks_of geometry.now part }
    ensures few { result ≤ 1048576 }
{
    match part {
        Part::Metadata => geometry.metadata_blocks() as usize,
        Part::Data => geometry.data_blocks() as usize,
    }
}

// How many of these counts are not zero.
fn used_among(counts: &[u32]) -> usize
    requires { length counts.now ≤ 1048576 }
    ensures { result ≡ used_in (length counts.now) counts.now }
{
    let mut used = 0;
    for count in counts {
        if *count > 0 {
            used += 1;
        }
    }
    used
}

// How many blocks of each run count zero.
fn unused_by_run(counts: &[u32]) -> [u32; RUNS]
    requires { length counts.now ≤ 1048576 }
    ensures { AreRuns (length counts.now) counts.now counts.now result }
{
    let mut runs = [0; RUNS];
    for b in 0..counts.len() {
        if counts[b] == 0 {
            runs[b / RUN] += 1;
        }
    }
    runs
}

// Marks each run of which the lists hold other counts.
fn changed_among(now: &[u32], kept: &[u32], touched: &[bool]) -> BlockMarks
    requires same { length kept.now ≡ length now.now }
    requires few { length now.now ≤ 1048576 }
    requires touched { AreTouched now.now kept.now touched.now }
    ensures same { SameUnmarked now.now kept.now result }
    ensures differ { DifferMarked now.now kept.now result }
{
    let mut changed = [false; RUNS];
    for run in 0..now.len().div_ceil(RUN) {
        if touched[run] {
            changed[run] = !is_same(now, kept, run);
        }
    }
    changed
}

// Whether the lists hold the same counts of a run.
fn is_same(now: &[u32], kept: &[u32], run: usize) -> bool
    requires same { length kept.now ≡ length now.now }
    requires inside { 1024 * run ≤ length now.now }
    requires few { run < 1024 }
    ensures { IsTrue result ↔ counts_in now.now run ≡ counts_in kept.now run }
{
    let from = RUN * run;
    let to = now.len().min(from + RUN);
    now[from..to] == kept[from..to]
}

// Copies the runs that are touched, and counts their free blocks.
fn keep_touched(now: &[u32], kept: &mut [u32], free_by_run: &mut [u32], touched: &[bool])
    requires same { length kept.old ≡ length now.now }
    requires few { length now.now ≤ 1048576 }
    requires runs { AreRuns (length now.now) now.now kept.old free_by_run.old }
    requires touched { AreTouched now.now kept.old touched.now }
    ensures kept { kept.new ≡ now.now }
    ensures long { length kept.new ≡ length kept.old }
    ensures runs { AreRuns (length now.now) now.now now.now free_by_run.new }
    ensures runs_long { length free_by_run.new ≡ length free_by_run.old }
{
    for run in 0..now.len().div_ceil(RUN) {
        if touched[run] {
            copy_run(now, kept, run);
            free_by_run[run] = unused_in_run(now, run);
        }
    }
}

// Touches no run any more.
fn untouch(touched: &mut [bool])
    ensures { touched.new ≡ replicate (length touched.old) false }
{
    touched.fill(false);
}

// Copies the counts of a run.
fn copy_run(now: &[u32], kept: &mut [u32], run: usize)
    requires same { length kept.old ≡ length now.now }
    requires inside { 1024 * run ≤ length now.now }
    requires few { run < 1024 }
    ensures here { counts_in kept.new run ≡ counts_in now.now run }
    ensures others { (r : ℕ) → (r ≡ run → ⊥) → counts_in kept.new r ≡ counts_in kept.old r }
    ensures long { length kept.new ≡ length kept.old }
{
    let from = RUN * run;
    let to = now.len().min(from + RUN);
    kept[from..to].copy_from_slice(&now[from..to]);
}

// How many blocks of a run count zero.
fn unused_in_run(counts: &[u32], run: usize) -> u32
    requires inside { 1024 * run ≤ length counts.now }
    requires few { run < 1024 }
    ensures { result ≡ count_by (is_free_in run counts.now counts.now) (range_with_len 0 (length counts.now)) }
{
    let from = RUN * run;
    let mut unused = 0;
    for b in from..counts.len().min(from + RUN) {
        if counts[b] == 0 {
            unused += 1;
        }
    }
    unused
}

// The first block from this one on that is zero in both lists, or their length where there is none.
fn least_free(now: &[u32], kept: &[u32], free_by_run: &[u32], from: usize) -> usize
    requires same { length kept.now ≡ length now.now }
    requires few { length now.now ≤ 1048576 }
    requires runs { AreRuns (length now.now) now.now kept.now free_by_run.now }
    ensures free { result < length now.now → (slice_index now.now result ≡ 0) × (slice_index kept.now result ≡ 0) }
    ensures least { (b : ℕ) → from ≤ b → b < result → 0 < slice_index now.now b + slice_index kept.now b }
{
    let mut b = from;
    while b < now.len() {
        if is_zero(now[b], kept[b]) {
            return b;
        }
        b = next_to_look_at(now, kept, free_by_run, b);
    }
    now.len()
}

// The block to look at behind one that is not free: where no block of its run is free, the first of the next run, and
// else the first behind those that are seen at once not to be free.
fn next_to_look_at(now: &[u32], kept: &[u32], free_by_run: &[u32], block: usize) -> usize
    requires same { length kept.now ≡ length now.now }
    requires few { length now.now ≤ 1048576 }
    requires inside { block < length now.now }
    requires runs { AreRuns (length now.now) now.now kept.now free_by_run.now }
    ensures more { block < result }
    ensures most { result ≤ block + 1024 }
    ensures used { (b : ℕ) → block < b → b < result → b < length now.now → 0 < slice_index now.now b + slice_index kept.now b }
    ensures run { slice_index free_by_run.now (block / 1024) ≡ 0 → result ≡ (block / 1024 + 1) * 1024 }
    ensures lanes { 0 < slice_index free_by_run.now (block / 1024) → block + 17 ≤ length now.now → result < block + 17
        → (slice_index now.now result ≡ 0) × (slice_index kept.now result ≡ 0) }
{
    let run = block / RUN;
    if free_by_run[run] == 0 {
        return (run + 1) * RUN;
    }
    let next = block + 1;
    if next + LANES > now.len() {
        return next;
    }
    next + used_ahead(now, kept, next)
}

fn is_zero(now: u32, kept: u32) -> bool
    ensures { IsTrue result ↔ (now ≡ 0) × (kept ≡ 0) }
{
    now == 0 && kept == 0
}
