//! The check of an image.
ghost use Rattle.std.specs.Prelude.{◌≡◌, ◌≤◌, ◌⊎◌, Err, IfErr, IsTrue, OnOk, not};
ghost use Rattle.tp_model.specs.Geometry.{IsTreeBlock, sectors_of_image};
ghost use Rattle.tp_model.specs.Disk.{FaultHasCause, after_read, seen};
ghost use Rattle.tp_layout.specs.Super.{roots_of};
ghost use Rattle.tp_image.specs.Clean.{HasTrueCounts, IsClean};
ghost use Rattle.tp_image.specs.Faults.{HasBadCount};
ghost use Rattle.tp_check.specs.Errors.{is_fault};
ghost use Rattle.tp_check.specs.Found.{HasFault};
ghost use Rattle.tp_check.specs.Walk.{IsWhole};
ghost use Rattle.tp_check.specs.declared.error.CheckError.{CheckError};

use crate::error::CheckError;
use crate::opening::superblock_on;
use crate::stored::{free_among, test_counts};
use crate::walk::{Walk, walk_all};
use std::alloc::Global;
use tp_disk::Disk;
use tp_layout::{Part, Superblock};
use tp_model::{Geometry, Mb};

/// Whether the image on a disk is clean: its trees, and those of a held copy, keep the rules, its stored counts are the
/// true ones, and at least 128 metadata blocks are free. It writes nothing.
///
/// It reads each node that is named once, however many volumes and copies share it, and the counts of the superblock's
/// area once.
/// Its memory is taken behind the superblock, before any node is read: some 60 bytes for each metadata block, and 4 for
/// each data block.
///
/// `Fault` where a read failed, `Memory` where memory was refused; every other error names a fault that the image has, and
/// one of them where it has several.
pub fn check<D: Disk>(alloc: Global, disk: &mut D) -> Result<(), CheckError>
    ensures clean { OnOk result (IsTrue (D.state disk.old).is_honest → IsClean (seen (D.state disk.old).cells)) }
    ensures fault { IfErr result (λ e. IsTrue (D.state disk.old).is_honest → HasFault (seen (D.state disk.old).cells) e) }
    ensures accepted { IfErr result (λ e. IsTrue (D.state disk.old).is_honest → IsClean (seen (D.state disk.old).cells) → (e ≡ CheckError.Fault) ⊎ (e ≡ CheckError.Memory)) }
    ensures state { D.state disk.new ≡ after_read (not (is_fault result)) (D.state disk.old) }
    ensures cause { FaultHasCause (is_fault result) (D.state disk.old) (D.state disk.new) }
{
    find_fault(alloc, disk)
}

/// A fault of the image on a disk, where it has one.
fn find_fault<D: Disk>(alloc: Global, disk: &mut D) -> Result<(), CheckError>
    ensures clean { OnOk result (IsTrue (D.state disk.old).is_honest → IsClean (seen (D.state disk.old).cells)) }
    ensures fault { IfErr result (λ e. IsTrue (D.state disk.old).is_honest → HasFault (seen (D.state disk.old).cells) e) }
    ensures state { D.state disk.new ≡ after_read (not (is_fault result)) (D.state disk.old) }
    ensures cause { FaultHasCause (is_fault result) (D.state disk.old) (D.state disk.new) }
{
    let superblock = superblock_on(disk)?;
    if !is_tree_block(&superblock.geometry, superblock.root) {
        return Err(CheckError::BadSuper);
    }
    if !may_be_held(&superblock.geometry, superblock.held_root) {
        return Err(CheckError::BadSuper);
    }
    let Ok(mut walk) = Walk::new(alloc, &superblock) else {
        return Err(CheckError::Memory);
    };
    walk_all(&mut walk, disk)?;
    test_stored(disk, &superblock, &walk)
}

/// Whether a block may hold a node.
fn is_tree_block(geometry: &Geometry, block: Mb) -> bool
    ensures inside { IsTrue result → IsTreeBlock geometry.now block }
    ensures outside { IsTrue (not result) → IsTreeBlock geometry.now block → ⊥ }
{
    if block.number() < geometry.fixed_part() {
        return false;
    }
    block.number() < geometry.metadata_blocks()
}

/// Whether a block may hold the root of a held copy, or is block 0, which says that none is held.
fn may_be_held(geometry: &Geometry, block: Mb) -> bool
    ensures inside { IsTrue result → (block ≡ 0) ⊎ IsTreeBlock geometry.now block }
    ensures outside { IsTrue (not result) → (block ≡ 0) ⊎ IsTreeBlock geometry.now block → ⊥ }
{
    if block.number() == 0 {
        return true;
    }
    is_tree_block(geometry, block)
}

/// Tests that the counts that a whole walk found stand in the superblock's area, and that enough of them are 0.
fn test_stored<D: Disk>(
    disk: &mut D,
    superblock: &Superblock,
    walk: &Walk,
) -> Result<(), CheckError>
    requires disk { sectors_of_image superblock.now.geometry ≤ (D.state disk.old).size }
    requires geometry { walk.now.geometry ≡ superblock.now.geometry }
    requires roots { walk.now.roots ≡ roots_of superblock.now }
    ensures stored { OnOk result (IsTrue (D.state disk.old).is_honest → (w : IsWhole (seen (D.state disk.old).cells) walk.now) → HasTrueCounts (seen (D.state disk.old).cells) superblock.now w.nodes) }
    ensures bad { result ≡ Err CheckError.BadCount → IsTrue (D.state disk.old).is_honest → IsWhole (seen (D.state disk.old).cells) walk.now → HasBadCount (seen (D.state disk.old).cells) superblock.now }
    ensures only { IfErr result (λ e. (e ≡ CheckError.Fault) ⊎ (e ≡ CheckError.BadCount)) }
    ensures state { D.state disk.new ≡ after_read (not (is_fault result)) (D.state disk.old) }
{
    let area = superblock.slot();
    let metadata_names = walk.metadata_names();
    let data_names = walk.data_names();
    test_counts(
        disk,
        &superblock.geometry,
        Part::Metadata,
        area,
        metadata_names,
    )?;
    test_counts(disk, &superblock.geometry, Part::Data, area, data_names)?;
    if free_among(metadata_names) < 128 {
        return Err(CheckError::BadCount);
    }
    Ok(())
}
