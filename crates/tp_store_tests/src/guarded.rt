//! Calls of trees and of their store that look first whether what these require holds, and refuse where it does not.

ghost use Rattle.std.specs.Prelude.{◌<◌, ◌≤◌, IsTrue};
ghost use Rattle.tp_model.specs.Geometry.{sectors_of_image};
ghost use Rattle.tp_tm.specs.Tm.{free_metadata};

use std::alloc::Global;
use std::test::Fail;
use tp_btree::{Changed, drop_tree, empty, insert, remove, replace, share};
use tp_counts::Counts;
use tp_disk::{Disk, MemDisk};
use tp_layout::{Entry, Part, TreeKind};
use tp_model::{Geometry, Mb, Pb, Refusal};
use tp_tm::Tm;

/// The counts of a pool of 128 sectors a block, 16 blocks a volume, 2048 metadata blocks and 4 data blocks, so of
/// 16896 sectors. Only data block 2 is named, once.
pub(crate) fn store_of(alloc: Global) -> Result<Tm, Fail> {
    let geometry = Geometry::new(128, 16, 2048, 4)?;
    let metadata = Counts::new(alloc, geometry, Part::Metadata)?;
    let mut others = Counts::new(alloc, geometry, Part::Data)?;
    if others.blocks() > 2 && others.now(2) < u32::MAX {
        others.inc(2);
    }
    Ok(Tm::new(geometry, metadata, others, Mb::new(0)))
}

/// What is told of such a store and a disk of that size by a function that has both by `&mut`.
///
/// Who owns them is proved to let all parts of them go at each exit. So this one owns them, and a test calls it with the function that tells.
pub(crate) fn told_of_store<T, F: FnOnce(&mut Tm, &mut MemDisk) -> T + Drop>(
    alloc: Global,
    tell: F,
) -> Result<T, Fail>
    requires { F.IsAlwaysCallable tell }
{
    let mut disk = MemDisk::new(alloc, 16_896)?;
    let mut tm = store_of(alloc)?;
    Ok(tell(&mut tm, &mut disk))
}

/// What is told of a disk of so many zero sectors by a function that has it by `&mut`.
pub(crate) fn told_of_disk<T, F: FnOnce(Global, &mut MemDisk) -> Result<T, Refusal> + Drop>(
    alloc: Global,
    sectors: u64,
    tell: F,
) -> Result<T, Refusal>
    requires { F.IsAlwaysCallable tell }
{
    match MemDisk::new(alloc, sectors) {
        Ok(mut disk) => tell(alloc, &mut disk),
        Err(_) => Err(Refusal::Memory),
    }
}

/// Whether there is room for a change of a tree.
fn has_room(tm: &Tm) -> bool
    ensures { IsTrue result → 9 ≤ free_metadata tm.now }
{
    tm.free_metadata() >= 9
}

/// Whether the pool is on the disk, and this block in the pool.
pub(crate) fn is_on<D: Disk>(tm: &Tm, disk: &D, block: Mb) -> bool
    ensures size { IsTrue result → sectors_of_image tm.now.geometry ≤ (D.state disk.now).size }
    ensures inside { IsTrue result → block < tm.now.geometry.metadata_blocks }
{
    if disk.sectors() < tm.geometry().image_sectors() {
        return false;
    }
    block.number() < tm.geometry().metadata_blocks()
}

/// An empty tree.
pub(crate) fn empty_on<D: Disk>(tm: &mut Tm, disk: &mut D) -> Result<Mb, Refusal> {
    if disk.sectors() < tm.geometry().image_sectors() || !has_room(tm) {
        return Err(Refusal::BadSuper);
    }
    match empty(tm, disk, TreeKind::Mapping) {
        Ok(root) => Ok(root),
        Err(_) => Err(Refusal::Fault),
    }
}

/// Maps a key to a data block.
pub(crate) fn insert_on<D: Disk>(
    tm: &mut Tm,
    disk: &mut D,
    root: Mb,
    key: u64,
    value: u64,
) -> Result<Mb, Refusal> {
    if !is_on(tm, disk, root) || !has_room(tm) {
        return Err(Refusal::BadSuper);
    }
    let entry = Entry {
        key,
        value,
        mapped: 0,
        size: 0,
    };
    Ok(insert(tm, disk, TreeKind::Mapping, root, entry)?)
}

/// Puts another data block in the place of that of a key.
pub(crate) fn replace_on<D: Disk>(
    tm: &mut Tm,
    disk: &mut D,
    root: Mb,
    entry: Entry,
) -> Result<Changed, Refusal> {
    if !is_on(tm, disk, root) || !has_room(tm) {
        return Err(Refusal::BadSuper);
    }
    let entry = Entry {
        key: entry.key,
        value: entry.value,
        mapped: 0,
        size: 0,
    };
    Ok(replace(tm, disk, TreeKind::Mapping, root, entry)?)
}

/// Takes out a key.
pub(crate) fn remove_on<D: Disk>(
    tm: &mut Tm,
    disk: &mut D,
    root: Mb,
    key: u64,
) -> Result<Changed, Refusal> {
    if !is_on(tm, disk, root) || !has_room(tm) {
        return Err(Refusal::BadSuper);
    }
    Ok(remove(tm, disk, TreeKind::Mapping, root, key)?)
}

/// A snapshot of a tree.
pub(crate) fn share_on(tm: &mut Tm, root: Mb) -> Result<(), Refusal> {
    if root.number() >= tm.geometry().metadata_blocks() {
        return Err(Refusal::BadSuper);
    }
    Ok(share(tm, root)?)
}

/// Gives up a tree.
pub(crate) fn release_on<D: Disk>(tm: &mut Tm, disk: &mut D, root: Mb) -> Result<(), Refusal> {
    if !is_on(tm, disk, root) {
        return Err(Refusal::BadSuper);
    }
    Ok(drop_tree(tm, disk, TreeKind::Mapping, root)?)
}

/// One reference more to a data block.
pub(crate) fn share_value(tm: &mut Tm, value: u64) -> Result<(), Refusal> {
    if value >= tm.geometry().data_blocks() as u64 {
        return Err(Refusal::BadSuper);
    }
    Ok(tm.share_data(Pb::new(value as u32))?)
}

/// One reference less to a data block.
pub(crate) fn release_value(tm: &mut Tm, value: u64) -> Result<(), Refusal> {
    if value >= tm.geometry().data_blocks() as u64 {
        return Err(Refusal::BadSuper);
    }
    Ok(tm.release_data(Pb::new(value as u32))?)
}
