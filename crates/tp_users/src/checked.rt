//! What a stop leaves is found clean, and what is found clean is opened.
ghost use Rattle.std.specs.Prelude.{◌≡◌, ◌⊎◌, IfErr, IfOk, IsTrue, List, MatchResult, false};
ghost use Rattle.tp_model.specs.Disk.{FaultHasCause, IsSettled, seen};
ghost use Rattle.tp_model.specs.Pool.{PlainPool};
ghost use Rattle.tp_model.specs.Refusals.{is_fault_refusal};
ghost use Rattle.tp_model.specs.Sectors.{Sector};
ghost use Rattle.tp_image.specs.Clean.{IsClean};
ghost use Rattle.tp_check.specs.Errors.{is_fault};
ghost use Rattle.tp_check.specs.declared.error.CheckError.{CheckError};
ghost use Rattle.tp_meta.specs.Standing.{StandsFor, geometry_of};
ghost use Rattle.tp_pool.specs.Held.{shows};
ghost use Rattle.tp_users.specs.Left.{IsLeft, IsLeftUnder};
ghost use Rattle.tp_users.specs.Users.{IsOutside, StandsForOne};

use std::alloc::Global;
use tp_check::{CheckError, check};
use tp_disk::{Disk, MemDisk, picks_are_stops};
use tp_meta::{Meta, Metadata};
use tp_model::Refusal;
use tp_pool::{Pool, images_stand_for_one_pool, stops_leave_pools};
use tp_stored::{clean_images_are_commits, commits_are_clean};

/// Each image that a stop may leave of a pool is clean: between two calls, at any moment of one, and while it is closed; also where the
/// pool has failed. So it is while another pool is formatted over it, but for an image whose slots say that there is no pool.
pub fn stops_leave_clean_images<M: Metadata>()
    ensures { (image : List Sector) → IsLeft M.geometry M.stands M.marks M.room M.changed image → IsClean image }
{
    stops_leave_pools::<M>();
    commits_are_clean();
}

/// The same of a pool on caches: each image that a stop may leave of the disk under them is clean.
pub fn stops_under_caches_leave_clean_images<M: Metadata>()
    ensures { (image : List Sector) → IsLeftUnder M.geometry M.stands M.marks M.room M.changed image → IsClean image }
{
    stops_leave_pools::<M>();
    commits_are_clean();
}

/// Checks what a stop may have left of a pool: it is clean, or the check could not be made, for want of memory or since the disk failed.
pub fn check_left<M: Metadata, D: Disk>(alloc: Global, disk: &mut D) -> Result<(), CheckError>
    ensures answers { IsTrue (D.state disk.old).is_honest → IsLeft M.geometry M.stands M.marks M.room M.changed (seen (D.state disk.old).cells)
        → IfErr result (λ e. (e ≡ CheckError.Fault) ⊎ (e ≡ CheckError.Memory)) }
    ensures cause { FaultHasCause (is_fault result) (D.state disk.old) (D.state disk.new) }
{
    stops_leave_clean_images::<M>();
    check(alloc, disk)
}

/// Checks what a stop may have left of the disk under a pool on caches: it is clean, or the check could not be made.
pub fn check_left_under<M: Metadata, D: Disk>(alloc: Global, disk: &mut D) -> Result<(), CheckError>
    ensures answers { IsTrue (D.state disk.old).is_honest → IsLeftUnder M.geometry M.stands M.marks M.room M.changed (seen (D.state disk.old).cells)
        → IfErr result (λ e. (e ≡ CheckError.Fault) ⊎ (e ≡ CheckError.Memory)) }
    ensures cause { FaultHasCause (is_fault result) (D.state disk.old) (D.state disk.new) }
{
    stops_under_caches_leave_clean_images::<M>();
    check(alloc, disk)
}

/// Stops a pool in a way of one's choice, and checks what that leaves: it is clean, or the check could not be made.
pub fn check_stopped(
    alloc: Global,
    pool: &Pool<MemDisk, Meta>,
    picks: &[u64],
) -> Result<(), CheckError>
    ensures { (s : PlainPool) → shows geometry_of StandsFor pool.now s → IfErr result (λ e. (e ≡ CheckError.Fault) ⊎ (e ≡ CheckError.Memory)) }
{
    picks_are_stops();
    match pool.disk().stop(alloc, picks) {
        Ok(mut disk) => check_left::<Meta, MemDisk>(alloc, &mut disk),
        Err(_) => Err(CheckError::Memory),
    }
}

/// Checks the image on a disk, whoever wrote it, and opens it where it is clean: then the pool shows the one plain pool that the image stands for.
/// A clean image is refused for want of memory or since the disk failed, and for nothing else. A refusal hands the disk back.
pub fn check_then_open<D: Disk>(alloc: Global, disk: D) -> Result<Pool<D, Meta>, (Refusal, D)>
    ensures clean { IfOk result (λ pool. IsTrue (D.state disk).is_honest → IsClean (seen (D.state disk).cells)) }
    ensures shown { IfOk result (λ pool. IsTrue (D.state disk).is_honest → IsSettled (D.state disk).cells
        → (s : PlainPool) × StandsForOne (seen (D.state disk).cells) s × shows geometry_of StandsFor pool s) }
    ensures opened { IfErr result (λ back. IsTrue (D.state disk).is_honest → IsClean (seen (D.state disk).cells) → IsOutside back.0) }
    ensures cause { MatchResult result (λ pool. FaultHasCause false (D.state disk) pool.disk)
        (λ back. FaultHasCause (is_fault_refusal back.0) (D.state disk) (D.state back.1)) }
{
    clean_images_are_commits();
    images_stand_for_one_pool();
    let mut disk = disk;
    match check(alloc, &mut disk) {
        Ok(()) => Pool::open(alloc, disk),
        Err(error) => Err((error.refusal(), disk)),
    }
}
