//! The commit of a store of nodes.
ghost use Rattle.std.specs.Prelude.{◌≡◌, ◌≢◌, ◌⊎◌, ◌+◌, ◌%◌, ◌<◌, ◌≤◌, ℕ, List, [], OnErr, OnOk, is_err};
ghost use Rattle.tp_model.specs.Geometry.{IsWithinLimits, fixed_part, sectors_of_image};
ghost use Rattle.tp_model.specs.Disk.{DiskState, FaultHasCause, IsSameDisk, Writes, seen};
ghost use Rattle.tp_model.specs.DiskStops.{Leaves, LeavesOnly};
ghost use Rattle.tp_layout.specs.Super.{slot_number};
ghost use Rattle.tp_layout.specs.declared.counts.Part.{Part};
ghost use Rattle.tp_layout.specs.declared.superblock.Superblock.{Superblock};
ghost use Rattle.tp_image.specs.Areas.{HoldsCounts};
ghost use Rattle.tp_layout.specs.declared.superblock.SlotId.{SlotId};
ghost use Rattle.tp_counts.specs.Counts.{SpellUnmarked};
ghost use Rattle.tp_refs.specs.Store.{Store, committed, node_at};
ghost use Rattle.tp_stored.specs.Commit.{IsCommit, held_by};
ghost use Rattle.tp_stored.specs.Contents.{SameData};
ghost use Rattle.tp_tm.specs.Tm.{IsSized, kept_now, now_of};
ghost use Rattle.tp_tm.specs.Holds.{Holds};
ghost use Rattle.tp_meta.specs.Committing.{IsNextCommit, IsStillCommit, KeepsCounts, MayCommit};
ghost use Rattle.tp_meta.specs.Metadata.{IsLater, RanWithFlushes};
ghost use Rattle.tp_meta.specs.Midway.{IsNamed, IsWritten, StoresCommit};
ghost use Rattle.tp_meta.specs.Stale.{AreCurrent, NameFixed, SameArea, marks_in};

use crate::ending::end_store;
use crate::stale::{AreaMarks, StaleBlocks};
use tp_disk::{Disk, Fault};
use tp_layout::{Part, SlotId, Superblock};
use tp_super::put;
use tp_tm::Tm;

/// Keeps a store of nodes as the commit of a superblock, and all that was written to data blocks. Of the counts it writes
/// the blocks that are stale in the area of the superblock, and those whose counts have changed since the last commit.
///
/// The nodes and the counts are written and flushed before the superblock, which is then flushed too. What the last commit
/// names, its counts among it, is not written. So where the superblock follows the last one, a stop at any moment leaves
/// the last commit or this one, whole; and after an `Ok` this one.
pub fn commit_store<D: Disk>(
    tm: &mut Tm,
    disk: &mut D,
    next: Superblock,
    stale: &mut StaleBlocks,
) -> Result<(), Fault>
    requires { sectors_of_image tm.old.geometry ≤ (D.state disk.old).size }
    ensures any_moment { (last : Superblock) (kept s : Store) → MayCommit tm.old stale.old (D.state disk.old) last next kept s
        → LeavesOnly (D.state disk.old) (D.state disk.new)
        (λ image. IsStillCommit last kept (D.state disk.old).cells image ⊎ IsNextCommit next s (D.state disk.old).cells image) }
    ensures stored { OnOk result ((last : Superblock) (kept s : Store) → MayCommit tm.old stale.old (D.state disk.old) last next kept s
        → Leaves (IsNextCommit next s (D.state disk.old).cells) (D.state disk.new).cells) }
    ensures holds { OnOk result ((last : Superblock) (kept s : Store) → MayCommit tm.old stale.old (D.state disk.old) last next kept s
        → Holds tm.new (D.state disk.new) [] (held_by next.geometry next.root next.held_root) (committed s)) }
    ensures current { OnOk result ((last : Superblock) (kept s : Store) → MayCommit tm.old stale.old (D.state disk.old) last next kept s
        → AreCurrent tm.new stale.new (seen (D.state disk.new).cells)) }
    ensures same_data { SameData tm.old.geometry (seen (D.state disk.old).cells) (seen (D.state disk.new).cells) }
    ensures kept { OnOk result (tm.new ≡ kept_now tm.old) }
    ensures unchanged { OnErr result (tm.new ≡ tm.old) }
    ensures ran { RanWithFlushes 2 2 (is_err result) result (D.state disk.old) (D.state disk.new) }
{
    let named = next;
    let last = next;
    match begin_store(tm, disk, next, stale) {
        Ok(()) => {}
        Err(Fault) => return Err(Fault),
    }
    match go_on_store(tm, disk, named, stale) {
        Ok(()) => end_store(tm, disk, last, stale),
        Err(Fault) => Err(Fault),
    }
}

/// The first part of a commit: writes the nodes, and of the counts what `commit_store` does. A stop leaves the last commit.
pub(crate) fn begin_store<D: Disk>(
    tm: &mut Tm,
    disk: &mut D,
    next: Superblock,
    stale: &StaleBlocks,
) -> Result<(), Fault>
    requires { sectors_of_image tm.old.geometry ≤ (D.state disk.old).size }
    ensures written { OnOk result (IsWritten 0 tm.new stale.now next (D.state disk.old) (D.state disk.new)) }
    ensures failed { OnErr result (StoresCommit tm.old tm.new stale.now stale.now next result (D.state disk.old) (D.state disk.new)) }
    ensures unchanged { tm.new ≡ tm.old }
{
    let area = next.slot();
    let changed = AreaMarks::changed_in(tm);
    let marks = stale.of(area).joined(&changed);
    match write_parts(tm, disk, area, &marks) {
        Ok(()) => Ok(()),
        Err(Fault) => Err(Fault),
    }
}

/// The second part: flushes the nodes and the counts, and writes the superblock.
pub(crate) fn go_on_store<D: Disk>(
    tm: &Tm,
    disk: &mut D,
    next: Superblock,
    stale: &StaleBlocks,
) -> Result<(), Fault>
    requires { sectors_of_image tm.now.geometry ≤ (D.state disk.old).size }
    ensures named { OnOk result ((before : DiskState) → IsWritten 0 tm.now stale.now next before (D.state disk.old) → IsNamed tm.now stale.now next before (D.state disk.new)) }
    ensures failed { OnErr result ((before : DiskState) → IsWritten 0 tm.now stale.now next before (D.state disk.old)
        → StoresCommit tm.now tm.now stale.now stale.now next result before (D.state disk.new)) }
    ensures same_disk { IsSameDisk (D.state disk.old) (D.state disk.new) }
{
    let _ = tm.geometry().fixed_part();
    match disk.flush() {
        Ok(()) => {}
        Err(Fault) => return Err(Fault),
    }
    match put(disk, &next) {
        Ok(()) => Ok(()),
        Err(Fault) => Err(Fault),
    }
}

/// Writes the nodes, and the marked count blocks of now into an area. Until a superblock names them they are in no commit.
fn write_parts<D: Disk>(
    tm: &mut Tm,
    disk: &mut D,
    area: SlotId,
    marks: &AreaMarks,
) -> Result<(), Fault>
    requires { sectors_of_image tm.old.geometry ≤ (D.state disk.old).size }
    ensures any_moment { (last : Superblock) (kept : Store) → Leaves (λ image. IsCommit image last kept) (D.state disk.old).cells → KeepsCounts tm.old last kept
        → tm.old.geometry ≡ last.geometry → slot_number area ≢ last.sequence % 2
        → LeavesOnly (D.state disk.old) (D.state disk.new) (IsStillCommit last kept (D.state disk.old).cells) }
    ensures holds { OnOk result ((held : List ℕ) (s : Store) → Holds tm.old (D.state disk.old) [] held s
        → ((b : ℕ) → b < fixed_part tm.old.geometry → (node_at s b).rank ≡ 0) → Holds tm.old (D.state disk.new) [] held s) }
    ensures counts { OnOk result (NameFixed tm.old → ((part : Part) → SpellUnmarked (seen (D.state disk.old).cells) tm.old.geometry part area (now_of tm.old part) (marks_in marks.now part))
        → (part : Part) → HoldsCounts (seen (D.state disk.new).cells) tm.old.geometry part area (now_of tm.old part)) }
    ensures beside { OnOk result (NameFixed tm.old → (other : SlotId) → other ≢ area
        → SameArea tm.old.geometry other (seen (D.state disk.old).cells) (seen (D.state disk.new).cells)) }
    ensures same_data { SameData tm.old.geometry (seen (D.state disk.old).cells) (seen (D.state disk.new).cells) }
    ensures sized { IsWithinLimits tm.old.geometry × IsSized tm.old }
    ensures unchanged { tm.new ≡ tm.old }
    ensures time { IsLater (D.state disk.old) (D.state disk.new) }
    ensures same_disk { IsSameDisk (D.state disk.old) (D.state disk.new) }
    ensures cause { FaultHasCause (is_err result) (D.state disk.old) (D.state disk.new) }
    ensures flushes { (D.state disk.new).flushes ≡ (D.state disk.old).flushes }
{
    let _ = tm.geometry().fixed_part();
    tm.write_nodes(disk)?;
    tm.write_area(disk, Part::Metadata, area, &marks.metadata)?;
    tm.write_area(disk, Part::Data, area, &marks.data)?;
    Ok(())
}

/// Has a cache below write what it keeps: it does so before it hands on a write that is no whole block of its own, and of the empty one nothing is left then.
pub(crate) fn write_back<D: Disk>(disk: &mut D) -> Result<(), Fault>
    ensures any { Writes 0 [] (D.state disk.old) (D.state disk.new) }
    ensures ok { OnOk result ((D.state disk.new).failures ≡ (D.state disk.old).failures) }
    ensures err { OnErr result ((D.state disk.new).failures ≡ (D.state disk.old).failures + 1) }
{
    disk.write(0, &[])
}
