//! Many operations on trees that share nodes, beside what they should hold.

use crate::guarded::{
    empty_on, insert_on, is_on, release_on, release_value, remove_on, replace_on, share_on,
    share_value,
};
use arrayvec::ArrayVec;
use std::alloc::Global;
use std::test::Fail;
use tp_btree::{lookup, walk};
use tp_counts::Counts;
use tp_disk::{Disk, MemDisk};
use tp_layout::{Entry, MOST_ENTRIES, NodeView, Part, TreeKind};
use tp_model::{Geometry, Mb, Refusal};
use tp_tm::Tm;

const ROOTS: usize = 4;

const KEYS: u64 = 1500;

/// A few roots of trees, and for each the data block at each key.
#[derive(Drop)]
struct Forest {
    roots: [Option<Mb>; ROOTS],
    values: Vec<Option<u64>>,
}

/// The counts of a pool of 128 sectors a block, 2048 metadata blocks and 512 data blocks, so of 81920 sectors. Nothing is
/// named.
fn wide_store(alloc: Global) -> Result<Tm, Fail> {
    let geometry = Geometry::new(128, 16, 2048, 512)?;
    let metadata = Counts::new(alloc, geometry, Part::Metadata)?;
    let others = Counts::new(alloc, geometry, Part::Data)?;
    Ok(Tm::new(geometry, metadata, others, Mb::new(0)))
}

fn index_of(i: usize, key: u64) -> usize {
    i % ROOTS * 1500 + (key % KEYS) as usize
}

fn value_at(values: &[Option<u64>], i: usize, key: u64) -> Option<u64> {
    let index = index_of(i, key);
    if index < values.len() {
        values[index]
    } else {
        None
    }
}

fn set_value(values: &mut [Option<u64>], i: usize, key: u64, value: Option<u64>) {
    let index = index_of(i, key);
    if index < values.len() {
        values[index] = value;
    }
}

/// The first key of a tree from this one on, and its value.
fn first_from(values: &[Option<u64>], i: usize, from: u64) -> Option<(u64, u64)> {
    for key in from..KEYS {
        if let Some(value) = value_at(values, i, key) {
            return Some((key, value));
        }
    }
    None
}

/// A key of a tree, this one or the next in a circle, and its value.
fn some_of(values: &[Option<u64>], i: usize, from: u64) -> Option<(u64, u64)> {
    match first_from(values, i, from) {
        Some(found) => Some(found),
        None => first_from(values, i, 0),
    }
}

/// A reference to a data block: a fresh one, or one that the tree has already. `None` where there is neither.
fn take_value(
    tm: &mut Tm,
    values: &[Option<u64>],
    i: usize,
    key: u64,
    shares: bool,
) -> Result<Option<u64>, Refusal> {
    let other = some_of(values, i, key);
    if !shares || other.is_none() {
        if let Some(place) = tm.fresh_data() {
            return Ok(Some(place.number() as u64));
        }
    }
    let Some((_, value)) = other else {
        return Ok(None);
    };
    share_value(tm, value)?;
    Ok(Some(value))
}

/// Takes out a key of a tree. Whether it was told what stood there.
fn take_one<D: Disk>(
    tm: &mut Tm,
    disk: &mut D,
    forest: &mut Forest,
    i: usize,
    root: Mb,
    key: u64,
) -> Result<bool, Refusal> {
    let was = value_at(&forest.values, i, key);
    set_value(&mut forest.values, i, key, None);
    let done = remove_on(tm, disk, root, key)?;
    forest.roots[i % ROOTS] = Some(done.root);
    release_value(tm, done.was.value)?;
    Ok(was == Some(done.was.value) && done.was.key == key)
}

/// Puts a value in at a key of a tree. Whether it was told what stood there.
fn put_one<D: Disk>(
    tm: &mut Tm,
    disk: &mut D,
    forest: &mut Forest,
    i: usize,
    root: Mb,
    entry: Entry,
) -> Result<bool, Refusal> {
    let was = value_at(&forest.values, i, entry.key);
    set_value(&mut forest.values, i, entry.key, Some(entry.value));
    if was.is_none() {
        forest.roots[i % ROOTS] = Some(insert_on(tm, disk, root, entry.key, entry.value)?);
        return Ok(true);
    }
    let done = replace_on(tm, disk, root, entry)?;
    forest.roots[i % ROOTS] = Some(done.root);
    release_value(tm, done.was.value)?;
    Ok(was == Some(done.was.value) && done.was.key == entry.key)
}

/// Gives a tree the values of another one.
fn copy_values(values: &mut [Option<u64>], from: usize, i: usize) {
    for key in 0..KEYS {
        let value = value_at(values, from, key);
        set_value(values, i, key, value);
    }
}

/// An empty tree for a place that has none.
fn plant_empty<D: Disk>(
    tm: &mut Tm,
    disk: &mut D,
    forest: &mut Forest,
    i: usize,
) -> Result<(), Refusal> {
    forest.roots[i % ROOTS] = Some(empty_on(tm, disk)?);
    Ok(())
}

/// A snapshot of another tree, which has this root.
fn plant_snapshot(
    tm: &mut Tm,
    forest: &mut Forest,
    from: usize,
    root: Mb,
    i: usize,
) -> Result<(), Refusal> {
    share_on(tm, root)?;
    forest.roots[i % ROOTS] = Some(root);
    copy_values(&mut forest.values, from, i);
    Ok(())
}

/// A tree for a place that has none: a snapshot of another, or an empty one.
fn plant<D: Disk>(
    tm: &mut Tm,
    disk: &mut D,
    forest: &mut Forest,
    i: usize,
    shares: bool,
) -> Result<(), Refusal> {
    let from = (i % ROOTS + 1) % ROOTS;
    if !shares {
        return plant_empty(tm, disk, forest, i);
    }
    let other = forest.roots[from];
    match other {
        Some(root) => plant_snapshot(tm, forest, from, root, i),
        None => plant_empty(tm, disk, forest, i),
    }
}

/// Takes a tree its values.
fn clear_values(values: &mut [Option<u64>], i: usize) {
    for key in 0..KEYS {
        set_value(values, i, key, None);
    }
}

/// Gives up a tree, where there is one.
fn fell<D: Disk>(tm: &mut Tm, disk: &mut D, forest: &mut Forest, i: usize) -> Result<(), Refusal> {
    let Some(root) = forest.roots[i % ROOTS] else {
        return Ok(());
    };
    release_on(tm, disk, root)?;
    forest.roots[i % ROOTS] = None;
    clear_values(&mut forest.values, i);
    Ok(())
}

fn commit<D: Disk>(tm: &mut Tm, disk: &mut D) -> Result<(), Refusal> {
    match disk.flush() {
        Ok(()) => {
            tm.keep();
            Ok(())
        }
        Err(_) => Err(Refusal::Fault),
    }
}

/// Puts a value in at a key of a tree, where there is one to be had.
fn put_some<D: Disk>(
    tm: &mut Tm,
    disk: &mut D,
    forest: &mut Forest,
    i: usize,
    root: Mb,
    seed: u64,
) -> Result<bool, Refusal> {
    let key = (seed >> 36) % KEYS;
    match take_value(tm, &forest.values, i, key, (seed >> 50) % 4 == 0)? {
        Some(value) => {
            let entry = Entry {
                key,
                value,
                mapped: 0,
                size: 0,
            };
            put_one(tm, disk, forest, i, root, entry)
        }
        None => Ok(true),
    }
}

/// One of many operations, by a number: most are insertions and replacements, or most are removals. Whether it told
/// what it should.
fn operate<D: Disk>(
    tm: &mut Tm,
    disk: &mut D,
    forest: &mut Forest,
    seed: u64,
    grows: bool,
) -> Result<bool, Refusal> {
    let i = (seed >> 33) as usize % ROOTS;
    let choice = (seed >> 53) % 256;
    let Some(root) = forest.roots[i] else {
        plant(tm, disk, forest, i, choice > 32)?;
        return Ok(true);
    };
    if choice == 0 {
        fell(tm, disk, forest, i)?;
        return Ok(true);
    }
    if grows == (choice % 8 > 0) {
        return put_some(tm, disk, forest, i, root, seed);
    }
    match some_of(&forest.values, i, (seed >> 36) % KEYS) {
        Some((key, _)) => take_one(tm, disk, forest, i, root, key),
        None => Ok(true),
    }
}

/// The data block that a tree has at a key.
fn found_on<D: Disk>(tm: &Tm, disk: &mut D, root: Mb, key: u64) -> Result<Option<u64>, Refusal> {
    if !is_on(tm, disk, root) {
        return Err(Refusal::BadSuper);
    }
    match lookup(tm, disk, TreeKind::Mapping, root, key)? {
        Some(found) => Ok(Some(found.entry.value)),
        None => Ok(None),
    }
}

/// Whether each tree has at a key what it should.
fn all_have<D: Disk>(tm: &Tm, disk: &mut D, forest: &Forest, key: u64) -> Result<bool, Refusal> {
    for i in 0..ROOTS {
        if let Some(root) = forest.roots[i] {
            if found_on(tm, disk, root, key)? != value_at(&forest.values, i, key) {
                return Ok(false);
            }
        }
    }
    Ok(true)
}

/// The key behind those of a piece of a walk from this key on, or `None` where the tree has others there.
fn behind(entries: &[Entry], values: &[Option<u64>], i: usize, from: u64) -> Option<u64> {
    let mut next = from;
    for entry in entries {
        if first_from(values, i, next) != Some((entry.key, entry.value)) {
            return None;
        }
        next = entry.key.saturating_add(1);
    }
    Some(next)
}

/// Whether a walk over a tree, in pieces, finds what it should.
fn is_walked<D: Disk>(
    tm: &Tm,
    disk: &mut D,
    forest: &Forest,
    i: usize,
    root: Mb,
) -> Result<bool, Refusal> {
    let mut from = 0;
    for _ in 0..7 {
        if !is_on(tm, disk, root) {
            return Err(Refusal::BadSuper);
        }
        let mut entries: ArrayVec<Entry, MOST_ENTRIES> = ArrayVec::new();
        walk(tm, disk, TreeKind::Mapping, root, from, &mut entries)?;
        let Some(next) = behind(entries.as_slice(), &forest.values, i, from) else {
            return Ok(false);
        };
        if entries.len() < MOST_ENTRIES {
            return Ok(first_from(&forest.values, i, next).is_none());
        }
        from = next;
    }
    Ok(false)
}

/// Whether the keys of a node ascend within this interval.
fn ascends(node: &NodeView<'_>, low: u64, high: u64) -> bool {
    let mut least = low;
    for i in 0..node.len() {
        let key = node.key(i);
        if key < least {
            return false;
        }
        if key >= high {
            return false;
        }
        least = key.saturating_add(1);
    }
    true
}

fn level_of<D: Disk>(tm: &Tm, disk: &mut D, place: Mb) -> Result<u32, Refusal> {
    if !is_on(tm, disk, place) {
        return Err(Refusal::BadSuper);
    }
    let mut block = [0; 4096];
    tm.read(disk, place, TreeKind::Mapping, &mut block)?;
    let Ok(node) = NodeView::read(&block, place, TreeKind::Mapping) else {
        return Err(Refusal::Damaged);
    };
    Ok(node.level())
}

/// The key behind those below the entry at a place.
fn end_of(node: &NodeView<'_>, i: usize, high: u64) -> u64 {
    let len = node.len();
    if i < len && i + 1 < len {
        node.key(i + 1)
    } else {
        high
    }
}

/// Whether a node of this level, with so many entries at least and keys in this interval, stands in a block, and below
/// it nodes of one level less, and so on.
fn is_shaped<D: Disk>(
    tm: &Tm,
    disk: &mut D,
    place: Mb,
    level: u32,
    least: usize,
    low: u64,
    high: u64,
) -> Result<bool, Refusal> {
    if !is_on(tm, disk, place) {
        return Err(Refusal::BadSuper);
    }
    let mut block = [0; 4096];
    tm.read(disk, place, TreeKind::Mapping, &mut block)?;
    let Ok(node) = NodeView::read(&block, place, TreeKind::Mapping) else {
        return Err(Refusal::Damaged);
    };
    if node.level() != level || node.len() < least || !ascends(&node, low, high) {
        return Ok(false);
    }
    if level == 0 {
        return Ok(true);
    }
    for i in 0..node.len() {
        let entry = node.entry(i);
        if entry.value >= 2048 {
            return Ok(false);
        }
        let child = Mb::new(entry.value as u32);
        let end = end_of(&node, i, high);
        if !is_shaped(tm, disk, child, level - 1, 126, entry.key, end)? {
            return Ok(false);
        }
    }
    Ok(true)
}

/// The greatest level of the trees, where each has the shape and the entries that it should.
fn all_stand<D: Disk>(tm: &Tm, disk: &mut D, forest: &Forest) -> Result<Option<u32>, Refusal> {
    let mut most = 0;
    for i in 0..ROOTS {
        if let Some(root) = forest.roots[i] {
            let level = level_of(tm, disk, root)?;
            let least = if level > 0 { 2 } else { 0 };
            if !is_shaped(tm, disk, root, level, least, 0, KEYS)? {
                return Ok(None);
            }
            if !is_walked(tm, disk, forest, i, root)? {
                return Ok(None);
            }
            most = most.max(level);
        }
    }
    Ok(Some(most))
}

/// The greatest level that was seen, and whether all trees were of level 0 behind level 1.
#[derive(Clone, Copy)]
struct Seen {
    highest: u32,
    has_shrunk: bool,
}

/// What is not as it should be: what an operation told, what a tree has at a key, or the shape of a tree or its entries.
#[derive(Clone, Copy, Debug, PartialEq, Eq)]
enum Wrong {
    Answer,
    Value,
    Tree,
}

/// Looks at all trees. Whether each has the shape and the entries that it should.
fn look<D: Disk>(tm: &Tm, disk: &mut D, forest: &Forest, seen: &mut Seen) -> Result<bool, Refusal> {
    let Some(level) = all_stand(tm, disk, forest)? else {
        return Ok(false);
    };
    seen.highest = seen.highest.max(level);
    seen.has_shrunk = seen.has_shrunk || (seen.highest == 1 && level == 0);
    Ok(true)
}

/// Does one operation, and each hundredth time looks at all trees behind it: what is wrong.
fn operate_and_look<D: Disk>(
    tm: &mut Tm,
    disk: &mut D,
    forest: &mut Forest,
    seen: &mut Seen,
    seed: u64,
    step: u32,
) -> Result<Option<Wrong>, Refusal> {
    if !operate(tm, disk, forest, seed, step % 6000 < 3200)? {
        return Ok(Some(Wrong::Answer));
    }
    if !all_have(tm, disk, forest, (seed >> 40) % KEYS)? {
        return Ok(Some(Wrong::Value));
    }
    if step % 100 == 99 && !look(tm, disk, forest, seen)? {
        return Ok(Some(Wrong::Tree));
    }
    Ok(None)
}

/// Does ten thousand operations, and a commit behind each three hundred: the first operation behind which something is wrong
/// and what that is, the greatest level that was seen, and whether all trees were of level 0 behind level 1.
fn first_wrong<D: Disk>(
    tm: &mut Tm,
    disk: &mut D,
    forest: &mut Forest,
) -> Result<(Option<(u32, Wrong)>, (u32, bool)), Refusal> {
    let mut seed = 1u64;
    let mut seen = Seen {
        highest: 0,
        has_shrunk: false,
    };
    for step in 0..10_000 {
        seed = seed.wrapping_mul(6_364_136_223_846_793_005).wrapping_add(1);
        if let Some(wrong) = operate_and_look(tm, disk, forest, &mut seen, seed, step)? {
            return Ok((Some((step, wrong)), (seen.highest, seen.has_shrunk)));
        }
        if step % 300 == 299 {
            commit(tm, disk)?;
        }
    }
    Ok((None, (seen.highest, seen.has_shrunk)))
}

/// Gives up all trees: how many metadata blocks and data blocks are in use then, and how many are free behind a commit.
fn fell_all<D: Disk>(
    tm: &mut Tm,
    disk: &mut D,
    forest: &mut Forest,
) -> Result<((u64, u64), (u64, u64)), Refusal> {
    for i in 0..ROOTS {
        fell(tm, disk, forest, i)?;
    }
    let used = (tm.used_metadata(), tm.used_data());
    commit(tm, disk)?;
    Ok((used, (tm.free_metadata(), tm.free_data())))
}

/// What is told of all operations, and what is left when all trees are given up.
type Told = (
    Result<(Option<(u32, Wrong)>, (u32, bool)), Refusal>,
    Result<((u64, u64), (u64, u64)), Refusal>,
);

/// The same in a forest that is empty at first.
fn told_of_a_forest(alloc: Global, tm: &mut Tm, disk: &mut MemDisk) -> Result<Told, Fail> {
    let mut forest = Forest {
        roots: [None; ROOTS],
        values: Vec::from_elem(alloc, None, 6000)?,
    };
    let told = first_wrong(tm, disk, &mut forest);
    Ok((told, fell_all(tm, disk, &mut forest)))
}

/// The same in a store of its own.
fn told_of_operations_on(alloc: Global, disk: &mut MemDisk) -> Result<Told, Fail> {
    let mut tm = wide_store(alloc)?;
    told_of_a_forest(alloc, &mut tm, disk)
}

/// The same on a disk of its own.
fn told_of_operations(alloc: Global) -> Result<Told, Fail> {
    let mut disk = MemDisk::new(alloc, 81_920)?;
    told_of_operations_on(alloc, &mut disk)
}

#[test]
fn ten_thousand_operations_on_shared_trees(rt: HostRuntime) -> Result<(), Fail> {
    let told = told_of_operations(rt.alloc())?;
    let left = Ok(((0, 0), (2048, 512)));
    assert_eq!(rt; told, (Ok((None, (1, true))), left));
    Ok(())
}
