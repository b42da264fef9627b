//! A flush in parts: what is read between them, how often the disk is flushed, and what stops leave behind a fault of each call.

use crate::pools::{FEW, MANY, MemServed, SECTOR, byte_at, close, with_volume};
use crate::stops::{
    ALL_LEFT, Begin, Expected, PLACES, Run, begun, fill_place, left_by_stops, opened_failing,
    perform, sector_of, volume_of,
};
use crate::tallies::TalliedDisk;
use std::alloc::Global;
use std::test::Fail;
use tp_cache::ReadCache;
use tp_disk::MemDisk;
use tp_meta::Meta;
use tp_model::{DevId, Flushing, Geometry, Refusal, Staged};
use tp_msg::{Managed, Message};
use tp_served::MidServed;

type MidMem = MidServed<ReadCache<TalliedDisk<MemDisk>>, Meta>;

/// Steps before the flush.
const STEPS: usize = 12;

/// The place in a block that no step writes to: written before the flush, it gives that metadata to keep.
const FRESH: usize = 8;

/// The disk calls of opening.
const OPENING: u64 = 6;

/// A byte that no place is filled with.
const STRANGE: u8 = 255;

/// What a pool told so far, and what the plain one holds.
#[derive(Clone, Copy)]
struct Life {
    expected: Expected,
    has_failed: bool,
    /// How often it told that the disk failed: in what changes it, in a READ, which is asked again, and in closing.
    faults: [u64; 3],
    /// How many READs gave what the plain pool holds: shared ones between two parts, and those of the pool alone. And how many a failed pool refused.
    reads: [u64; 3],
    /// How much was told that may not be.
    wrong: u64,
}

impl Life {
    fn new() -> Life {
        Life {
            expected: Expected {
                now: [0; PLACES],
                allowed: [1; PLACES],
            },
            has_failed: false,
            faults: [0; 3],
            reads: [0; 3],
            wrong: 0,
        }
    }

    fn wonder(&mut self) {
        self.wrong = self.wrong.wrapping_add(1);
    }

    fn count_fault(&mut self, kind: usize) {
        let kind = kind % 3;
        self.faults[kind] = self.faults[kind].wrapping_add(1);
    }

    fn count_read(&mut self, kind: usize) {
        let kind = kind % 3;
        self.reads[kind] = self.reads[kind].wrapping_add(1);
    }

    /// Takes what a READ of this kind gave of a place.
    fn compare(&mut self, kind: usize, place: usize, byte: u8) {
        if byte == self.expected.now[place % PLACES] {
            self.count_read(kind);
        } else {
            self.wonder();
        }
    }

    /// Takes what a READ of a place told: whether it is to be asked again.
    fn hear_read(&mut self, place: usize, told: Result<u8, Refusal>) -> bool {
        match told {
            Ok(byte) => self.compare(1, place, byte),
            Err(Refusal::Fault) => {
                self.count_fault(1);
                return true;
            }
            Err(Refusal::Failed) if self.has_failed => self.count_read(2),
            Err(_) => self.wonder(),
        }
        false
    }

    /// Takes what is told of what was to change the pool, or of closing.
    fn hear(&mut self, kind: usize, told: Result<(), Refusal>) {
        match told {
            Ok(()) if !self.has_failed => {}
            Err(Refusal::Failed) if self.has_failed => {}
            Err(Refusal::Fault) if !self.has_failed => {
                self.count_fault(kind);
                self.has_failed = true;
            }
            _ => self.wonder(),
        }
    }

    /// Takes what is told of what keeps all that was done.
    fn hear_kept(&mut self, kind: usize, told: Result<(), Refusal>) {
        self.hear(kind, told);
        if told.is_ok() {
            self.expected.keep();
        }
    }

    /// Whether it told of the fault of this call, and of nothing else; of call 0 there is none.
    fn is_right(&self, call: u64) -> bool {
        let [changes, reads, closings] = self.faults;
        let faults = changes.wrapping_add(reads).wrapping_add(closings);
        self.wrong == 0 && faults == (call > 0) as u64
    }
}

/// The byte that fills the sector of a place in the midst of a flush, where a shared read gives it; `STRANGE` where none fills it.
fn byte_between(midway: &MidMem, place: usize) -> Option<u8> {
    let mut out = [STRANGE; SECTOR];
    let sector = sector_of(place);
    if sector >= midway.geometry().volume_sectors() {
        return None;
    }
    if !midway.read_shared(volume_of(place), sector, &mut out) {
        return None;
    }
    Some(if out == [out[0]; SECTOR] {
        out[0]
    } else {
        STRANGE
    })
}

/// Reads each place between two parts, where a shared read finds it.
fn read_between(midway: &MidMem, life: &mut Life) {
    for place in 0..PLACES {
        if let Some(byte) = byte_between(midway, place) {
            life.compare(0, place, byte);
        }
    }
}

/// Reads a place, and once more where the disk failed.
fn read_place(pool: &mut MemServed, place: usize, life: &mut Life) {
    let told = byte_at(pool, volume_of(place), sector_of(place));
    if life.hear_read(place, told) {
        let again = byte_at(pool, volume_of(place), sector_of(place));
        life.hear_read(place, again);
    }
}

fn read_all(pool: &mut MemServed, life: &mut Life) {
    for place in 0..PLACES {
        read_place(pool, place, life);
    }
}

/// What a flush in parts was answered, and what the disk had had behind the first part, and behind the second one, where there was one.
#[derive(Clone, Copy)]
struct Told {
    works: [[u64; 3]; 2],
    answer: Result<(), Refusal>,
}

/// Reads a pool between two parts, and syncs ahead: what the disk had had before that.
fn look_between(midway: &MidMem, life: &mut Life) -> [u64; 3] {
    read_between(midway, life);
    let work = midway.disk().work();
    midway.sync_ahead();
    work
}

fn ended(midway: MidMem, life: &mut Life, told: &mut Told) -> MemServed {
    told.works[1] = look_between(&midway, life);
    let (pool, answer) = midway.end_flush();
    told.answer = answer;
    pool
}

fn gone_on(midway: MidMem, life: &mut Life, told: &mut Told) -> MemServed {
    told.works = [look_between(&midway, life); 2];
    match midway.go_on() {
        Flushing::Done(pool, answer) => {
            told.answer = answer;
            pool
        }
        Flushing::Midway(midway) => ended(midway, life, told),
    }
}

/// Flushes a pool in parts, and reads it and syncs ahead between them.
fn flushed_so(pool: MemServed, life: &mut Life, told: &mut Told) -> MemServed {
    match pool.begin_flush() {
        Flushing::Done(pool, answer) => {
            told.answer = answer;
            pool
        }
        Flushing::Midway(midway) => gone_on(midway, life, told),
    }
}

/// Does so, and keeps what was done where that is answered. What the disk had had behind the parts is told.
fn flushed(pool: MemServed, life: &mut Life, works: &mut [[u64; 3]; 2]) -> MemServed {
    let mut told = Told {
        works: [[0; 3]; 2],
        answer: Ok(()),
    };
    let pool = flushed_so(pool, life, &mut told);
    life.hear_kept(0, told.answer);
    *works = told.works;
    pool
}

/// Does so many random steps, up to the first that is refused, and fills the fresh place.
fn perform_some(pool: &mut MemServed, expected: &mut Expected) -> Result<(), Refusal> {
    let mut bits = 1u64;
    for number in 0..STEPS {
        bits = bits.wrapping_mul(6_364_136_223_846_793_005).wrapping_add(1);
        perform(pool, number, bits, expected)?;
    }
    fill_place(pool, FRESH, 1, expected)
}

/// Does so, and reads all places, whose metadata are in memory then.
fn live_before(pool: &mut MemServed, life: &mut Life) {
    let told = perform_some(pool, &mut life.expected);
    life.hear(0, told);
    read_all(pool, life);
}

/// Flushes a pool in parts, and reads all places behind that.
fn flush_and_read(pool: MemServed, life: &mut Life) -> MemServed {
    let mut pool = flushed(pool, life, &mut [[0; 3]; 2]);
    read_all(&mut pool, life);
    pool
}

/// Does some steps on a copy of the pool on which this disk call fails, flushes it in parts, reads it before, between and behind them, and closes it.
fn run_parts(alloc: Global, begin: &Begin, call: u64, life: &mut Life) -> Result<MemDisk, Fail> {
    let mut pool = opened_failing(alloc, begin, call)?;
    live_before(&mut pool, life);
    let (answer, disk) = close(flush_and_read(pool, life));
    life.hear_kept(2, answer);
    Ok(disk)
}

/// Such a run: what its pool told, how many disk calls it made, and how many images of three stops are clean and places of their pools read as they may.
fn told_of_run(
    alloc: Global,
    begin: &Begin,
    call: u64,
    life: &mut Life,
) -> Result<(u64, [u64; 2]), Fail> {
    let disk = run_parts(alloc, begin, call, life)?;
    let run = Run {
        disk,
        expected: life.expected,
    };
    let left = left_by_stops(alloc, begin, &run)?;
    Ok((run.disk.calls(), left))
}

/// What many runs told, all together.
#[derive(Clone, Copy)]
struct Tally {
    /// In how many of them a call failed, and in how many of these that was told by a change or the flush, by a READ, and by closing.
    faults: [u64; 4],
    /// How many READs gave what the plain pool holds between two parts, and of the pool alone, and how many a failed pool refused.
    reads: [u64; 3],
    /// How many images of stops are clean, and how many READs of their pools gave what may be found.
    left: [u64; 2],
}

impl Tally {
    const NOTHING: Tally = Tally {
        faults: [0; 4],
        reads: [0; 3],
        left: [0; 2],
    };

    fn add(&mut self, life: &Life, left: &[u64; 2]) {
        let [tried, changes, reads, closings] = self.faults;
        self.faults = [
            tried.wrapping_add(1),
            changes.wrapping_add(life.faults[0]),
            reads.wrapping_add(life.faults[1]),
            closings.wrapping_add(life.faults[2]),
        ];
        let [between, alone, refused] = self.reads;
        self.reads = [
            between.wrapping_add(life.reads[0]),
            alone.wrapping_add(life.reads[1]),
            refused.wrapping_add(life.reads[2]),
        ];
        self.left = [
            self.left[0].wrapping_add(left[0]),
            self.left[1].wrapping_add(left[1]),
        ];
    }
}

/// Counts the run in which this call fails: whether that is told, and all that is read is what it may be.
fn is_run_right(alloc: Global, begin: &Begin, call: u64, tally: &mut Tally) -> Result<bool, Fail> {
    let mut life = Life::new();
    let (_, left) = told_of_run(alloc, begin, call, &mut life)?;
    tally.add(&life, &left);
    Ok(life.is_right(call) && left == ALL_LEFT)
}

/// Counts the runs in which each call behind those of opening fails alone: the first one that is wrong.
fn first_wrong(
    alloc: Global,
    begin: &Begin,
    calls: u64,
    tally: &mut Tally,
) -> Result<Option<u64>, Fail> {
    for number in OPENING..calls {
        if !is_run_right(alloc, begin, number + 1, tally)? {
            return Ok(Some(number + 1));
        }
    }
    Ok(None)
}

/// A run without a fault: whether it is right, how many disk calls it makes and what was read in it. And what those with one told, by the fields of a tally, and the
/// first that is wrong.
type Looked = (
    (bool, u64, [u64; 3]),
    ([u64; 4], [u64; 3], [u64; 2]),
    Option<u64>,
);

fn looked_at(alloc: Global, begin: &Begin) -> Result<Looked, Fail> {
    let mut whole = Life::new();
    let (calls, left) = told_of_run(alloc, begin, 0, &mut whole)?;
    let is_right = whole.is_right(0) && left == ALL_LEFT;
    let mut tally = Tally::NOTHING;
    let wrong = first_wrong(alloc, begin, calls, &mut tally)?;
    let told = (tally.faults, tally.reads, tally.left);
    Ok(((is_right, calls, whole.reads), told, wrong))
}

/// Each fault is looked at behind three stops. The READ that fails gives the same sector when it is asked again.
#[test]
fn faults_and_stops_of_a_flush_in_parts(rt: HostRuntime) -> Result<(), Fail> {
    let looked = looked_at(rt.alloc(), &begun(rt.alloc(), FEW)?)?;
    let told = ([55, 38, 16, 1], [342, 378, 612], [165, 1485]);
    assert_eq!(rt; looked, ((true, 61, [18, 18, 0]), told, None));
    Ok(())
}

/// Writes and reads the first place, so that a shared read finds those of its volume.
fn write_and_read(pool: &mut MemServed, life: &mut Life) -> Result<(), Refusal> {
    fill_place(pool, 0, 7, &mut life.expected)?;
    read_place(pool, 0, life);
    Ok(())
}

/// A pool of which that was done.
fn written(alloc: Global, life: &mut Life) -> Result<MemServed, Refusal> {
    let mut pool = with_volume(alloc, Geometry::new(128, 16, 2048, 4)?, MANY)?;
    write_and_read(&mut pool, life)?;
    Ok(pool)
}

/// What came to one of these from the other.
fn since(work: [u64; 3], earlier: [u64; 3]) -> [u64; 3] {
    [
        work[0].wrapping_sub(earlier[0]),
        work[1].wrapping_sub(earlier[1]),
        work[2].wrapping_sub(earlier[2]),
    ]
}

/// How often each part of a flush of such a pool wrote and flushed, and how often it was synced ahead before it.
fn work_of_parts(pool: MemServed, life: &mut Life) -> [[u64; 3]; 3] {
    let mut works = [[0; 3]; 2];
    let before = pool.disk().work();
    let pool = flushed(pool, life, &mut works);
    let [first, second] = works;
    let last = since(pool.disk().work(), second);
    [since(first, before), since(second, first), last]
}

/// The first part writes nodes and counts, the second one flushes them and writes the superblock, and the last one flushes that. Before each flush what it is to bring
/// was synced ahead. All five places of the volume are read behind the first part and behind the second one.
#[test]
fn reads_go_on_between_the_parts_of_a_flush(rt: HostRuntime) -> Result<(), Fail> {
    let mut life = Life::new();
    let pool = written(rt.alloc(), &mut life)?;
    let parts = work_of_parts(pool, &mut life);
    assert_eq!(rt;
        (life.is_right(0), life.reads, parts),
        (true, [10, 1, 0], [[4, 0, 0], [1, 1, 1], [0, 1, 1]])
    );
    Ok(())
}

/// Makes a snapshot of the volume but for its commit, and flushes the pool in parts: what the change was told, and whether all that was answered is right.
fn snapshot_in_parts(mut pool: MemServed, life: &mut Life) -> (Option<Result<(), Refusal>>, bool) {
    let begun = pool.change(&Message::CreateSnap {
        id: DevId::new(9),
        origin: volume_of(0),
    });
    let _ = flushed(pool, life, &mut [[0; 3]; 2]);
    (begun, life.is_right(0))
}

/// All five places of the volume are read behind each of the first two parts of the flush that keeps the snapshot.
#[test]
fn reads_go_on_while_a_message_is_kept(rt: HostRuntime) -> Result<(), Fail> {
    let mut life = Life::new();
    let pool = written(rt.alloc(), &mut life)?;
    let told = snapshot_in_parts(pool, &mut life);
    assert_eq!(rt; (told, life.reads), ((None, true), [10, 1, 0]));
    Ok(())
}
