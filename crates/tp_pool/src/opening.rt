//! How a pool on trees is made and opened.
ghost use Rattle.std.specs.Prelude.{◌≡◌, ◌≢◌, ◌⊎◌, ◌+◌, ◌<◌, ◌≤◌, [], Err, IfErr, IfOk, IsTrue, MatchResult, Ok, false, not};
ghost use Rattle.tp_model.specs.Geometry.{Geometry, sectors_of_image};
ghost use Rattle.tp_model.specs.Pool.{PlainPool};
ghost use Rattle.tp_model.specs.Refusals.{is_fault_refusal};
ghost use Rattle.tp_model.specs.Disk.{FaultHasCause, IsSameDisk, IsSettled, after_read, seen};
ghost use Rattle.tp_model.specs.DiskStops.{Leaves, LeavesOnly};
ghost use Rattle.tp_layout.specs.declared.superblock.Superblock.{Superblock};
ghost use Rattle.tp_image.specs.Slots.{Chooses};
ghost use Rattle.tp_image.specs.Fresh.{IsFreshOf, empty_pool};
ghost use Rattle.tp_image.specs.Stands as images;
ghost use Rattle.tp_stored.specs.Contents.{Contents, HoldsContents, IsOpened};
ghost use Rattle.tp_meta.specs.Format.{IsFormatting};
ghost use Rattle.tp_meta.specs.Opening.{IsOpenedFrom, IsUnopened};
ghost use Rattle.tp_meta.specs.Standing.{StandsFor, changed_of, geometry_of, opened_of};
ghost use Rattle.tp_pool.specs.Held.{shows, IsPool, IsSomePool};
ghost use Rattle.tp_pool.specs.Formatting.{IsBetween};
ghost use Rattle.tp_pool.specs.Lives.{IsReopenedFrom};

use crate::pool::Pool;
use std::alloc::Global;
use tp_blocks::Blocks;
use tp_disk::Disk;
use tp_meta::{Meta, Metadata};
use tp_model::{Geometry, Refusal};

impl<D: Disk> Pool<D, Meta> {
    /// The pool of the last commit of a disk, or a refusal with the disk handed back. It writes nothing.
    ///
    /// It refuses with `NotAPool` or `BadVersion` where the slots give no superblock of this version; with `Damaged` where
    /// both are torn, or what the superblock names is not on the disk, or fewer than 128 metadata blocks are free; with `Memory`
    /// where there is none for the counts, the marks and one block; and with `Fault` where a read failed.
    pub fn open(alloc: Global, disk: D) -> Result<Pool<D, Meta>, (Refusal, D)>
        ensures shows { IfOk result (λ pool. IsTrue (D.state disk).is_honest → IsSettled (D.state disk).cells
            → (g : Geometry) (c : Contents) (s : PlainPool) → HoldsContents g c (seen (D.state disk).cells) → IsOpened g c (seen (D.state disk).cells) s
            → shows geometry_of StandsFor pool s) }
        // Its metadata stand for the contents of the commit, now and as the last commit kept them.
        ensures stands { IfOk result (λ pool. IsTrue (D.state disk).is_honest → IsSettled (D.state disk).cells
            → (g : Geometry) (c : Contents) → HoldsContents g c (seen (D.state disk).cells) → StandsFor pool.metadata pool.disk c c × (geometry_of pool.metadata ≡ g)) }
        // The superblock that the slots give, with the counts of its area.
        ensures told { IfOk result (λ pool. IsTrue (D.state disk).is_honest
            → IsOpenedFrom (seen (D.state disk).cells) (opened_of pool.metadata)) }
        // So it goes on from whatever a stop left, as `lives_are_runs` says.
        ensures reopened { IfOk result (λ pool. IsTrue (D.state disk).is_honest → IsSettled (D.state disk).cells
            → IsReopenedFrom geometry_of StandsFor (seen (D.state disk).cells) pool) }
        // Where that is the image of a commit, there is a pool that it stands for, and this shows it.
        ensures found { IfOk result (λ pool. IsTrue (D.state disk).is_honest → IsSettled (D.state disk).cells → IsSomePool (seen (D.state disk).cells)
            → (s : PlainPool) × images.StandsFor (seen (D.state disk).cells) s × shows geometry_of StandsFor pool s) }
        ensures state { IfOk result (λ pool. pool.disk ≡ D.state disk) }
        ensures holders { IfOk result (λ pool. pool.holders ≡ []) }
        ensures unchanged { IfOk result (λ pool. changed_of pool.metadata ≡ false) }
        ensures why { IfErr result (λ back. back.0 ≢ Refusal.Fault → back.0 ≢ Refusal.Memory → IsTrue (D.state disk).is_honest → IsUnopened (seen (D.state disk).cells) back.0) }
        // The image of a commit is opened, where the disk and the memory allow it.
        ensures refused { IfErr result (λ back. back.0 ≢ Refusal.Fault → back.0 ≢ Refusal.Memory → IsTrue (D.state disk).is_honest
            → (g : Geometry) (c : Contents) → HoldsContents g c (seen (D.state disk).cells) → ⊥) }
        ensures back { IfErr result (λ back. D.state back.1 ≡ after_read (not (is_fault_refusal back.0)) (D.state disk)) }
    {
        let mut disk = disk;
        let metadata = match Meta::open(alloc, &mut disk) {
            Ok(metadata) => metadata,
            Err(refusal) => return Err((refusal, disk)),
        };
        let Ok(blocks) = Blocks::new(alloc, metadata.geometry()) else {
            return Err((Refusal::Memory, disk));
        };
        Ok(Pool::over(disk, metadata, blocks))
    }

    /// Makes a disk that of an empty pool of this geometry, whatever it held, and opens it; or a refusal with the disk handed
    /// back.
    ///
    /// It refuses, in this order: with `Memory` where there is none for one block, the marks and the counts, and with
    /// `BadGeometry` where the disk has fewer sectors than the image; both before any disk call. It refuses with `Fault`
    /// where the disk failed.
    pub fn format(alloc: Global, disk: D, geometry: Geometry) -> Result<Pool<D, Meta>, (Refusal, D)>
        ensures shows { IfOk result (λ pool. IsTrue (D.state disk).is_honest → shows geometry_of StandsFor pool (empty_pool geometry)) }
        // It is as one that was opened from the image that stands on the disk now.
        ensures reopened { IfOk result (λ pool. IsTrue (D.state disk).is_honest → IsReopenedFrom geometry_of StandsFor (seen pool.disk.cells) pool) }
        ensures holders { IfOk result (λ pool. pool.holders ≡ []) }
        ensures unchanged { IfOk result (λ pool. changed_of pool.metadata ≡ false) }
        ensures geometry { IfOk result (λ pool. geometry_of pool.metadata ≡ geometry) }
        ensures fresh { IfOk result (λ pool. IsFreshOf geometry (seen pool.disk.cells)) }
        ensures settled { IfOk result (λ pool. IsSettled pool.disk.cells) }
        ensures flushed { IfOk result (λ pool. pool.disk.flushes ≡ (D.state disk).flushes + 4) }
        ensures only { IfErr result (λ back. (back.0 ≡ Refusal.Memory) ⊎ (back.0 ≡ Refusal.BadGeometry) ⊎ (back.0 ≡ Refusal.Fault)) }
        ensures small { IfErr result (λ back. back.0 ≡ Refusal.BadGeometry → (D.state disk).size < sectors_of_image geometry) }
        ensures large { (D.state disk).size < sectors_of_image geometry
            → MatchResult result (λ _. ⊥) (λ back. (back.0 ≡ Refusal.BadGeometry) ⊎ (back.0 ≡ Refusal.Memory)) }
        ensures same { MatchResult result (λ pool. IsSameDisk (D.state disk) pool.disk) (λ back. IsSameDisk (D.state disk) (D.state back.1)) }
        ensures cause { MatchResult result (λ pool. FaultHasCause false (D.state disk) pool.disk)
            (λ back. FaultHasCause (is_fault_refusal back.0) (D.state disk) (D.state back.1)) }
        ensures untouched { IfErr result (λ back. back.0 ≢ Refusal.Fault → D.state back.1 ≡ D.state disk) }
        // At any moment a stop leaves the pool that the disk held, no pool, or the new one.
        ensures any_moment { (last : Superblock) → IsTrue (D.state disk).is_honest → Leaves (λ image. Chooses image (Ok last)) (D.state disk).cells
            → MatchResult result (λ pool. LeavesOnly (D.state disk) pool.disk (IsFormatting last geometry (D.state disk).cells))
            (λ back. LeavesOnly (D.state disk) (D.state back.1) (IsFormatting last geometry (D.state disk).cells)) }
        // So where a pool stood on a settled disk: that one, no pool, or the new one, and each pool in an image that `open` opens as it.
        ensures pools { IsTrue (D.state disk).is_honest → IsSettled (D.state disk).cells
            → (g : Geometry) (s : PlainPool) → IsPool g (seen (D.state disk).cells) → images.StandsFor (seen (D.state disk).cells) s
            → MatchResult result (λ pool. LeavesOnly (D.state disk) pool.disk (IsBetween g s geometry))
            (λ back. LeavesOnly (D.state disk) (D.state back.1) (IsBetween g s geometry)) }
    {
        let Ok(blocks) = Blocks::new(alloc, geometry) else {
            return Err((Refusal::Memory, disk));
        };
        let mut disk = disk;
        match Meta::format(alloc, &mut disk, geometry) {
            Ok(metadata) => Ok(Pool::over(disk, metadata, blocks)),
            Err(refusal) => Err((refusal, disk)),
        }
    }
}
