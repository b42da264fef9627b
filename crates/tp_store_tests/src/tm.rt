ghost use Rattle.std.specs.Prelude.{◌<◌, IsTrue};
ghost use Rattle.tp_tm.specs.Tm.{free_metadata};

use crate::guarded::{store_of, told_of_store};
use std::alloc::Global;
use std::test::Fail;
use tp_disk::{Disk, Fault, MemDisk};
use tp_layout::{NodeView, TreeKind};
use tp_model::{Mb, Pb, Refusal};
use tp_tm::Tm;

/// Bytes of a metadata block.
const BLOCK: usize = 4096;

/// The reference to data block 2.
const DATA: u64 = 2050;

/// A leaf of a mapping tree in this block, with so many entries: none, or one that maps virtual block 3 to data
/// block 2.
fn leaf(own: u8, count: u8) -> [u8; BLOCK] {
    let mut bytes = [0; BLOCK];
    bytes[0] = 2;
    bytes[8] = own;
    if count > 0 {
        bytes[16] = 1;
        bytes[64] = 3;
        bytes[72] = 2;
    }
    bytes
}

fn has_room(tm: &Tm) -> bool
    ensures { IsTrue result → 0 < free_metadata tm.now }
{
    tm.free_metadata() > 0
}

fn fresh_of(tm: &mut Tm) -> Result<Mb, Refusal> {
    if !has_room(tm) {
        return Err(Refusal::BadSuper);
    }
    Ok(tm.fresh())
}

fn write_on<D: Disk>(tm: &mut Tm, disk: &mut D, block: Mb, count: u8) -> Result<(), Refusal> {
    let bytes = leaf((block.number() % 256) as u8, count);
    let Ok(view) = NodeView::read(&bytes, block, TreeKind::Mapping) else {
        return Err(Refusal::Damaged);
    };
    let node = view.to_node();
    let own = node.own;
    if disk.sectors() < tm.geometry().image_sectors() {
        return Err(Refusal::BadSuper);
    }
    if own.number() >= tm.geometry().metadata_blocks() {
        return Err(Refusal::BadSuper);
    }
    if tm.node_kept(own) > 0 {
        return Err(Refusal::BadSuper);
    }
    match tm.write(disk, &node) {
        Ok(()) => Ok(()),
        Err(Fault) => Err(Refusal::Fault),
    }
}

/// The level and the number of entries of a leaf.
fn read_on<D: Disk>(tm: &Tm, disk: &mut D, block: Mb) -> Result<(u32, usize), Refusal> {
    if disk.sectors() < tm.geometry().image_sectors() {
        return Err(Refusal::BadSuper);
    }
    if block.number() >= tm.geometry().metadata_blocks() {
        return Err(Refusal::BadSuper);
    }
    let mut bytes = [0; BLOCK];
    tm.read(disk, block, TreeKind::Mapping, &mut bytes)?;
    let Ok(node) = NodeView::read(&bytes, block, TreeKind::Mapping) else {
        return Err(Refusal::Damaged);
    };
    Ok((node.level(), node.len()))
}

fn share_on(tm: &mut Tm, block: Mb) -> Result<(), Refusal> {
    if block.number() >= tm.geometry().metadata_blocks() {
        return Err(Refusal::BadSuper);
    }
    Ok(tm.share(block)?)
}

/// The open block, and the number of entries of the node.
fn shadow_on<D: Disk>(tm: &mut Tm, disk: &mut D, block: Mb) -> Result<(Mb, usize), Refusal> {
    if disk.sectors() < tm.geometry().image_sectors() || !has_room(tm) {
        return Err(Refusal::BadSuper);
    }
    if block.number() >= tm.geometry().metadata_blocks() {
        return Err(Refusal::BadSuper);
    }
    let mut bytes = [0; BLOCK];
    let to = tm.shadow(disk, block, TreeKind::Mapping, &mut bytes)?;
    let Ok(node) = NodeView::read(&bytes, block, TreeKind::Mapping) else {
        return Err(Refusal::Damaged);
    };
    Ok((to, node.len()))
}

fn release_on<D: Disk>(tm: &mut Tm, disk: &mut D, block: Mb) -> Result<(), Refusal> {
    if disk.sectors() < tm.geometry().image_sectors() {
        return Err(Refusal::BadSuper);
    }
    if block.number() >= tm.geometry().metadata_blocks() {
        return Err(Refusal::BadSuper);
    }
    Ok(tm.release(disk, block, TreeKind::Mapping)?)
}

/// How often a block is named now, by reference; none past the last.
fn named(tm: &Tm, reference: u64) -> Option<u32> {
    let blocks = tm.geometry().metadata_blocks() as u64 + tm.geometry().data_blocks() as u64;
    if reference < blocks {
        Some(tm.count(reference))
    } else {
        None
    }
}

/// How often the first two blocks and data block 2 are named.
type Times = [Option<u32>; 3];

fn all_named(tm: &Tm) -> Times {
    let first = named(tm, 0);
    let second = named(tm, 1);
    [first, second, named(tm, DATA)]
}

/// A fresh block, how often it is named, the node that is read from it, and the block to change it in.
type Told = (Mb, Option<u32>, (u32, usize), (Mb, usize));

fn write_and_read<D: Disk>(tm: &mut Tm, disk: &mut D, count: u8) -> Result<Told, Refusal> {
    let block = fresh_of(tm)?;
    let times = named(tm, block.number() as u64);
    write_on(tm, disk, block, count)?;
    let read = read_on(tm, disk, block)?;
    Ok((block, times, read, shadow_on(tm, disk, block)?))
}

/// The same of a leaf without an entry, and then of one with an entry.
fn told_of_two(tm: &mut Tm, disk: &mut MemDisk) -> Result<(Told, Told), Refusal> {
    let empty = write_and_read(tm, disk, 0)?;
    Ok((empty, write_and_read(tm, disk, 1)?))
}

/// A leaf in block 0 that two references name.
fn shared_leaf<D: Disk>(tm: &mut Tm, disk: &mut D) -> Result<Mb, Refusal> {
    let block = fresh_of(tm)?;
    write_on(tm, disk, block, 1)?;
    share_on(tm, block)?;
    Ok(block)
}

/// The block to change a shared node in, and its entries; and how often blocks are named before it is asked for, behind that,
/// and once the copy is written and the node given up.
fn told_of_a_copy(
    tm: &mut Tm,
    disk: &mut MemDisk,
) -> Result<((Mb, usize), (Times, Times, Times)), Refusal> {
    let block = shared_leaf(tm, disk)?;
    let before = all_named(tm);
    let (to, entries) = shadow_on(tm, disk, block)?;
    let between = all_named(tm);
    write_on(tm, disk, to, 1)?;
    release_on(tm, disk, block)?;
    Ok(((to, entries), (before, between, all_named(tm))))
}

/// Of a shared leaf that is given up twice: how often blocks are named behind each time, its block, and the one that is fresh
/// then.
fn told_of_releases(tm: &mut Tm, disk: &mut MemDisk) -> Result<((Times, Times), Mb, Mb), Refusal> {
    let block = shared_leaf(tm, disk)?;
    release_on(tm, disk, block)?;
    let once = all_named(tm);
    release_on(tm, disk, block)?;
    Ok(((once, all_named(tm)), block, fresh_of(tm)?))
}

#[test]
fn a_shared_node_is_copied(rt: HostRuntime) -> Result<(), Fail> {
    let copied = told_of_store(rt.alloc(), told_of_a_copy)?;
    let released = told_of_store(rt.alloc(), told_of_releases)?;
    let before = [Some(2), Some(0), Some(1)];
    let between = [Some(1), Some(1), Some(2)];
    let behind = [Some(0), Some(1), Some(1)];
    let (once, twice) = ([Some(1), Some(0), Some(1)], [Some(0), Some(0), Some(0)]);
    assert_eq!(rt;
        (copied, released),
        (
            Ok(((Mb::new(1), 1), (before, between, behind))),
            Ok(((once, twice), Mb::new(0), Mb::new(0))),
        )
    );
    Ok(())
}

/// What is answered of a block of zeros that is named twice: to a read, to a copy, and to each that gives up a reference.
type Answers = (
    Result<(u32, usize), Refusal>,
    Result<(Mb, usize), Refusal>,
    [Result<(), Refusal>; 2],
);

fn answers_of_zeros(tm: &mut Tm, disk: &mut MemDisk) -> Result<Answers, Refusal> {
    let block = fresh_of(tm)?;
    let read = read_on(tm, disk, block);
    share_on(tm, block)?;
    let shadowed = shadow_on(tm, disk, block);
    let first = release_on(tm, disk, block);
    Ok((read, shadowed, [first, release_on(tm, disk, block)]))
}

fn give_back(tm: &mut Tm, place: u32) -> Result<(), Refusal> {
    if place >= tm.geometry().data_blocks() || place >= 4 {
        return Err(Refusal::BadSuper);
    }
    Ok(tm.release_data(Pb::new(place))?)
}

/// Four data blocks that are fresh, one behind the other, and how many are in use and free then.
fn told_of_fresh(tm: &mut Tm) -> ([Option<Pb>; 4], (u64, u64)) {
    let fresh = [
        tm.fresh_data(),
        tm.fresh_data(),
        tm.fresh_data(),
        tm.fresh_data(),
    ];
    (fresh, (tm.used_data(), tm.free_data()))
}

/// Which data block is fresh once one is given back that no commit names, once it is given back behind a commit of it, and
/// behind the next commit; and what giving it back a second time answers.
fn told_of_giving_back(tm: &mut Tm) -> Result<([Option<Pb>; 3], Result<(), Refusal>), Refusal> {
    for _ in 0..3 {
        let _ = tm.fresh_data();
    }
    give_back(tm, 1)?;
    let at_once = tm.fresh_data();
    tm.keep();
    give_back(tm, 1)?;
    let twice = give_back(tm, 1);
    let before = tm.fresh_data();
    tm.keep();
    Ok(([at_once, before, tm.fresh_data()], twice))
}

#[test]
fn data_blocks_come_and_go(rt: HostRuntime) -> Result<(), Fail> {
    let told = told_of_fresh(&mut store_of(rt.alloc())?);
    let wanted = [Some(Pb::new(0)), Some(Pb::new(1)), Some(Pb::new(3)), None];
    let given_back = told_of_giving_back(&mut store_of(rt.alloc())?);
    // What no commit names is free at once.
    let fresh = [Some(Pb::new(1)), None, Some(Pb::new(1))];
    assert_eq!(rt;
        (told, given_back),
        ((wanted, (4, 0)), Ok((fresh, Err(Refusal::Damaged))))
    );
    Ok(())
}

/// A fresh leaf. One with an entry has a reference to data block 2.
fn grow<D: Disk>(tm: &mut Tm, disk: &mut D, count: u8) -> Result<Mb, Refusal> {
    if tm.geometry().data_blocks() <= 2 {
        return Err(Refusal::BadSuper);
    }
    if count > 0 {
        tm.share_data(Pb::new(2))?;
    }
    let block = fresh_of(tm)?;
    write_on(tm, disk, block, count)?;
    Ok(block)
}

/// Writes a leaf again, to the block that is its own now.
fn change<D: Disk>(tm: &mut Tm, disk: &mut D, block: Mb) -> Result<Mb, Refusal> {
    let (to, entries) = shadow_on(tm, disk, block)?;
    write_on(tm, disk, to, (entries % 2) as u8)?;
    Ok(to)
}

fn commit<D: Disk>(tm: &mut Tm, disk: &mut D) -> Result<(), Refusal> {
    match disk.flush() {
        Ok(()) => {
            tm.keep();
            Ok(())
        }
        Err(Fault) => Err(Refusal::Fault),
    }
}

/// One of many operations on a few leaves that are held, by a number.
fn operate<D: Disk>(
    tm: &mut Tm,
    disk: &mut D,
    roots: &mut [Option<Mb>; 8],
    seed: u64,
) -> Result<(), Refusal> {
    let i = (seed >> 33) as usize % 8;
    let j = (seed >> 43) as usize % 8;
    let choice = (seed >> 53) % 16;
    if choice == 0 {
        return commit(tm, disk);
    }
    let Some(block) = roots[i] else {
        roots[i] = Some(grow(tm, disk, (choice % 2) as u8)?);
        return Ok(());
    };
    if choice < 8 {
        roots[i] = Some(change(tm, disk, block)?);
        return Ok(());
    }
    if choice < 12 && roots[j].is_none() {
        share_on(tm, block)?;
        roots[j] = Some(block);
        return Ok(());
    }
    roots[i] = None;
    release_on(tm, disk, block)
}

/// A block among the first 32 that the last commit names, from this one on.
fn kept_from(tm: &Tm, from: u32) -> Option<Mb> {
    for k in 0..32 {
        let block = Mb::new((from % 32 + k) % 32);
        if block.number() < tm.geometry().metadata_blocks() && tm.node_kept(block) > 0 {
            return Some(block);
        }
    }
    None
}

/// How many of the leaves that are held stand in this block.
fn held_in(roots: &[Option<Mb>; 8], block: Mb) -> u32 {
    let mut times = 0u32;
    for root in roots {
        if *root == Some(block) {
            times = times.saturating_add(1);
        }
    }
    times
}

/// One operation: whether a block that the last commit names was watched, and whether that stayed unwritten and the counts
/// are those of the leaves that are held.
fn watched_step(
    tm: &mut Tm,
    disk: &mut MemDisk,
    roots: &mut [Option<Mb>; 8],
    seed: u64,
) -> Result<(bool, bool), Refusal> {
    let kept = kept_from(tm, (seed >> 48) as u32);
    if let Some(block) = kept {
        disk.watch(block.first_sector());
    }
    operate(tm, disk, roots, seed)?;
    if kept.is_some() && disk.watched_writes() > 0 {
        return Ok((true, false));
    }
    match roots[(seed >> 33) as usize % 8] {
        Some(block) => {
            let times = named(tm, block.number() as u64);
            Ok((kept.is_some(), times == Some(held_in(roots, block))))
        }
        None => Ok((kept.is_some(), true)),
    }
}

fn release_all(tm: &mut Tm, disk: &mut MemDisk, roots: &[Option<Mb>; 8]) -> Result<(), Refusal> {
    for root in roots {
        if let Some(block) = *root {
            release_on(tm, disk, block)?;
        }
    }
    Ok(())
}

/// Does so many operations: the first behind which something is not right, and how often a block was watched.
fn first_wrong(
    tm: &mut Tm,
    disk: &mut MemDisk,
    roots: &mut [Option<Mb>; 8],
    steps: u32,
) -> Result<(Option<u32>, u32), Refusal> {
    let mut seed = 1u64;
    let mut watched = 0u32;
    for step in 0..steps {
        seed = seed.wrapping_mul(6_364_136_223_846_793_005).wrapping_add(1);
        let (has_watched, is_right) = watched_step(tm, disk, roots, seed)?;
        if !is_right {
            return Ok((Some(step), watched));
        }
        watched = watched.saturating_add(has_watched as u32);
    }
    Ok((None, watched))
}

/// Gives up all leaves: how often data block 2 is named then, how many metadata blocks are in use, and how many are free behind
/// a commit.
fn give_up_all(
    tm: &mut Tm,
    disk: &mut MemDisk,
    roots: &[Option<Mb>; 8],
) -> Result<(Option<u32>, u64, u64), Refusal> {
    release_all(tm, disk, roots)?;
    let (times, used) = (named(tm, DATA), tm.used_metadata());
    commit(tm, disk)?;
    Ok((times, used, tm.free_metadata()))
}

/// Of a thousand operations the first behind which something is not right, whether blocks were watched behind most of them, and what is left.
fn told_of_many(
    tm: &mut Tm,
    disk: &mut MemDisk,
) -> Result<(Option<u32>, bool, (Option<u32>, u64, u64)), Refusal> {
    let mut roots = [None; 8];
    let (wrong, watched) = first_wrong(tm, disk, &mut roots, 1000)?;
    let left = give_up_all(tm, disk, &roots)?;
    Ok((wrong, watched > 900, left))
}

#[test]
fn many_operations_write_nothing_kept(rt: HostRuntime) -> Result<(), Fail> {
    let told = told_of_store(rt.alloc(), told_of_many)?;
    assert_eq!(rt; told, Ok((None, true, (Some(1), 0, 2048))));
    Ok(())
}

/// A leaf that the last commit names is shared and copied twice; a copy is changed, and both are given up: nine disk
/// calls.
fn live_of(tm: &mut Tm, disk: &mut MemDisk) -> Result<(), Refusal> {
    let block = grow(tm, disk, 1)?;
    tm.keep();
    disk.watch(block.first_sector());
    share_on(tm, block)?;
    let one = change(tm, disk, block)?;
    let other = change(tm, disk, block)?;
    let one = change(tm, disk, one)?;
    release_on(tm, disk, one)?;
    release_on(tm, disk, other)
}

/// What `live_of` answers where this disk call fails, how many there are, whether what the commit names was left alone (there
/// is no commit where the first call fails), and how often block 0 and data block 2 are named then.
type Lived = (Result<(), Refusal>, u64, bool, [Option<u32>; 2]);

fn lived_on(tm: &mut Tm, disk: &mut MemDisk, failing: u64) -> Lived {
    disk.fail(failing, failing);
    let told = live_of(tm, disk);
    let is_left = failing <= 1 || disk.watched_writes() == 0;
    (told, disk.calls(), is_left, [named(tm, 0), named(tm, DATA)])
}

fn lived_at(alloc: Global, failing: u64) -> Result<Lived, Fail> {
    told_of_store(alloc, |tm, disk| lived_on(tm, disk, failing))
}

/// The first of the nine calls that is not told where it fails, is not the last then, or behind which what the commit names was
/// not left alone.
fn first_untold(alloc: Global) -> Result<Option<u64>, Fail> {
    for failing in 1..10 {
        let (told, calls, is_left, _) = lived_at(alloc, failing)?;
        if (told, calls, is_left) != (Err(Refusal::Fault), failing, true) {
            return Ok(Some(failing));
        }
    }
    Ok(None)
}

#[test]
fn a_fault_at_each_call_is_told(rt: HostRuntime) -> Result<(), Fail> {
    let untold = first_untold(rt.alloc())?;
    let whole = lived_at(rt.alloc(), 10)?;
    assert_eq!(rt;
        (untold, whole),
        (None, (Ok(()), 9, true, [Some(0), Some(1)]))
    );
    Ok(())
}

/// What a write of a node answers where this disk call of those from now on fails.
fn written_at(tm: &mut Tm, disk: &mut MemDisk, block: Mb, failing: u64) -> Result<(), Refusal> {
    let next = disk.calls().saturating_add(failing);
    disk.fail(next, next);
    write_on(tm, disk, block, 1)
}

/// What a read of a node answers there.
fn read_at(tm: &Tm, disk: &mut MemDisk, block: Mb, failing: u64) -> Result<(u32, usize), Refusal> {
    let next = disk.calls().saturating_add(failing);
    disk.fail(next, next);
    read_on(tm, disk, block)
}

type Writes = [Result<(), Refusal>; 2];

type Reads = [Result<(u32, usize), Refusal>; 2];

/// What two writes answer, and two reads, where a disk call fails in the first of both.
fn told_of_faults(tm: &mut Tm, disk: &mut MemDisk) -> Result<(Writes, Reads), Refusal> {
    let block = fresh_of(tm)?;
    let first = written_at(tm, disk, block, 1);
    let writes = [first, written_at(tm, disk, block, 2)];
    let first = read_at(tm, disk, block, 1);
    Ok((writes, [first, read_at(tm, disk, block, 2)]))
}

#[test]
fn nodes_are_written_and_read(rt: HostRuntime) -> Result<(), Fail> {
    let told = told_of_store(rt.alloc(), told_of_two)?;
    let faults = told_of_store(rt.alloc(), told_of_faults)?;
    let zeros = told_of_store(rt.alloc(), answers_of_zeros)?;
    // What is named once and not kept is changed where it stands.
    let (first, second) = (Mb::new(0), Mb::new(1));
    let wanted = (
        (first, Some(1), (0, 0), (first, 0)),
        (second, Some(1), (0, 1), (second, 1)),
    );
    let (fault, damaged) = (Refusal::Fault, Refusal::Damaged);
    // The first of two references to zeros is given up without a look at the block.
    let released = [Ok(()), Err(damaged)];
    assert_eq!(rt;
        (told, faults, zeros),
        (
            Ok(wanted),
            Ok(([Err(fault), Ok(())], [Err(fault), Ok((0, 1))])),
            Ok((Err(damaged), Err(damaged), released)),
        )
    );
    Ok(())
}
