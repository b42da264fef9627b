//! The opening of a disk: the superblock of its last commit, and that one's counts.
ghost use Rattle.std.specs.Prelude.{◌≡◌, ◌≢◌, ◌⊎◌, ◌+◌, ◌<◌, ◌≤◌, [], Err, IfErr, IfOk, IsTrue, length, not, slice_index};
ghost use Rattle.tp_model.specs.Geometry.{IsWithinLimits, sectors_of_image};
ghost use Rattle.tp_model.specs.Refusals.{is_fault};
ghost use Rattle.tp_model.specs.Disk.{FaultHasCause, after_read, seen};
ghost use Rattle.tp_layout.specs.declared.counts.Part.{Part};
ghost use Rattle.tp_layout.specs.declared.superblock.Superblock.{Superblock};
ghost use Rattle.tp_refs.specs.Store.{Store};
ghost use Rattle.tp_stored.specs.Commit.{IsCommit, held_by};
ghost use Rattle.tp_tm.specs.Tm.{kept_now, now_of, used_metadata};
ghost use Rattle.tp_tm.specs.Holds.{Holds};
ghost use Rattle.tp_meta.specs.Opening.{AreCounted, HasCounts, IsShort, IsToldOf, LacksCounts};

use std::alloc::Global;
use tp_counts::Counts;
use tp_disk::Disk;
use tp_layout::{Part, Superblock};
use tp_model::{Mb, Refusal};
use tp_super::load;
use tp_tm::Tm;

/// A pool that is opened has at least so many metadata blocks with a count of 0.
const SPARE: u64 = 128;

/// The last commit of a disk.
#[derive(Drop)]
pub struct Opened {
    /// The counts that it stored, now and kept alike.
    pub tm: Tm,
    pub superblock: Superblock,
}

/// The last commit of a disk: its superblock, and a store of nodes with its counts. It writes nothing.
///
/// It refuses, in this order: as `load` does; with `Damaged` where the disk has fewer sectors than the image; with `Memory`
/// where there is no memory for the counts; with `Damaged` where the area of the superblock holds no counts, where
/// fewer than 128 metadata blocks have a count of 0, or where one of the fixed part or a root has; and with `Fault` where
/// a read failed.
pub fn open_store<D: Disk>(alloc: Global, disk: &mut D) -> Result<Opened, Refusal>
    ensures told { result ≢ Err Refusal.Fault → result ≢ Err Refusal.Memory → IsTrue (D.state disk.old).is_honest → IsToldOf (seen (D.state disk.old).cells) result }
    ensures holds { IfOk result (λ opened. IsTrue (D.state disk.old).is_honest → (last : Superblock) (s : Store) → IsCommit (seen (D.state disk.old).cells) last s
        → (opened.superblock ≡ last) × Holds opened.tm (D.state disk.new) [] (held_by last.geometry last.root last.held_root) s) }
    // The image of a commit is opened, where the disk and the memory allow it.
    ensures refused { IfErr result (λ refusal. refusal ≢ Refusal.Fault → refusal ≢ Refusal.Memory → IsTrue (D.state disk.old).is_honest
        → (last : Superblock) (s : Store) → IsCommit (seen (D.state disk.old).cells) last s → ⊥) }
    // On a disk that is not honest too.
    ensures alike { IfOk result (λ opened. (opened.tm.geometry ≡ opened.superblock.geometry) × (kept_now opened.tm ≡ opened.tm)) }
    ensures held { IfOk result (λ opened. opened.tm.held_root ≡ opened.superblock.held_root) }
    ensures spare { IfOk result (λ opened. used_metadata opened.tm + 128 ≤ opened.superblock.geometry.metadata_blocks) }
    ensures whole { IfOk result (λ opened. sectors_of_image opened.superblock.geometry ≤ (D.state disk.old).size) }
    ensures only { IfErr result (λ refusal. (refusal ≡ Refusal.Fault) ⊎ (refusal ≡ Refusal.Memory) ⊎ (refusal ≡ Refusal.BadVersion) ⊎ (refusal ≡ Refusal.Damaged) ⊎ (refusal ≡ Refusal.NotAPool)) }
    ensures state { D.state disk.new ≡ after_read (not (is_fault result)) (D.state disk.old) }
    ensures cause { FaultHasCause (is_fault result) (D.state disk.old) (D.state disk.new) }
{
    let superblock = load(disk)?;
    let tm = stored_counts(alloc, disk, &superblock)?;
    if tm.used_metadata() > superblock.geometry.metadata_blocks() as u64 - SPARE {
        return Err(Refusal::Damaged);
    }
    if !are_counted(&tm, &superblock) {
        return Err(Refusal::Damaged);
    }
    Ok(Opened { tm, superblock })
}

/// Whether each metadata block that a pool of the superblock has in any case has a count over 0. A later change would take
/// another one for free, and write over it.
fn are_counted(tm: &Tm, superblock: &Superblock) -> bool
    requires { tm.now.geometry ≡ superblock.now.geometry }
    ensures yes { IsTrue result → AreCounted superblock.now tm.now.metadata_now }
    ensures no { IsTrue (not result) → AreCounted superblock.now tm.now.metadata_now → ⊥ }
{
    for block in 0..superblock.geometry.fixed_part() {
        if !is_counted(tm, Mb::new(block)) {
            return false;
        }
    }
    is_counted(tm, superblock.root) && is_counted(tm, superblock.held_root)
}

/// Whether a metadata block is there and has a count over 0.
fn is_counted(tm: &Tm, block: Mb) -> bool
    ensures yes { IsTrue result → 0 < slice_index tm.now.metadata_now block }
    ensures no { IsTrue (not result) → slice_index tm.now.metadata_now block ≡ 0 }
{
    block.number() < tm.geometry().metadata_blocks() && tm.node_count(block) > 0
}

/// A store of nodes with the counts that stand in the area of a superblock.
fn stored_counts<D: Disk>(
    alloc: Global,
    disk: &mut D,
    superblock: &Superblock,
) -> Result<Tm, Refusal>
    ensures found { IfOk result (λ tm. IsTrue (D.state disk.old).is_honest → (part : Part) → HasCounts (seen (D.state disk.old).cells) superblock.now part (now_of tm part)) }
    ensures alike { IfOk result (λ tm. (tm.geometry ≡ superblock.now.geometry) × (kept_now tm ≡ tm)) }
    ensures held { IfOk result (λ tm. tm.held_root ≡ superblock.now.held_root) }
    ensures whole { IfOk result (λ tm. sectors_of_image superblock.now.geometry ≤ (D.state disk.old).size) }
    ensures damaged { result ≡ Err Refusal.Damaged → IsTrue (D.state disk.old).is_honest
        → IsShort (seen (D.state disk.old).cells) superblock.now ⊎ LacksCounts (seen (D.state disk.old).cells) superblock.now }
    ensures only { IfErr result (λ refusal. (refusal ≡ Refusal.Memory) ⊎ (refusal ≡ Refusal.Fault) ⊎ (refusal ≡ Refusal.Damaged)) }
    ensures state { D.state disk.new ≡ after_read (not (is_fault result)) (D.state disk.old) }
    ensures cause { FaultHasCause (is_fault result) (D.state disk.old) (D.state disk.new) }
{
    let geometry = superblock.geometry;
    if disk.sectors() < geometry.image_sectors() {
        return Err(Refusal::Damaged);
    }
    let area = superblock.slot();
    let metadata = Counts::read(alloc, disk, geometry, Part::Metadata, area)?;
    let others = Counts::read(alloc, disk, geometry, Part::Data, area)?;
    Ok(Tm::new(geometry, metadata, others, superblock.held_root))
}
