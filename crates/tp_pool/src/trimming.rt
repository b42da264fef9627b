//! Blocks of a volume that lie wholly in a range lose their data blocks.
ghost use Rattle.std.specs.Prelude.{◌≡◌, ◌≢◌, ◌+◌, ◌^◌, ◌≤◌, ◌<◌, ℕ, IsSome, IsTrue, Err, MatchResult, OnOk, false, true};
ghost use Rattle.tp_model.specs.Geometry.{sectors_of_image};
ghost use Rattle.tp_model.specs.Clauses.{EndsInVolume};
ghost use Rattle.tp_model.specs.Calls.{Trim, is_failed, is_read_only};
ghost use Rattle.tp_model.specs.declared.mode.Mode.TheVariants as mode;
ghost use Rattle.tp_sharing.specs.Volumes.{device_of};
ghost use Rattle.tp_stored.specs.Contents.{Contents};
ghost use Rattle.tp_shown.specs.Shown.{blocks_covered, first_covered};
ghost use Rattle.tp_meta.specs.Metadata.{IsAltered};
ghost use Rattle.tp_pool.specs.Checked.{HasOnlyRead, IsOnlyRead};
ghost use Rattle.tp_pool.specs.Flushes.{HasChanged};
ghost use Rattle.tp_pool.specs.AtMetadata.{AnswersSo, FlushesSo, HasFlushed, HasUnmapped, LiesIn, PoolAnswered, PoolTried, view};
ghost use Rattle.tp_pool.specs.Held.{Fits, IsTried};

use crate::pool::{Pool, is_failed, is_read_only};
use crate::room::{TRIM_ROOM, keep, lacks, reclaim_for};
use crate::sectors::covered;
use tp_counts::StoreError;
use tp_disk::Disk;
use tp_meta::Metadata;
use tp_model::{DevId, Refusal, Vb};

/// Takes the data blocks of `count` virtual blocks of a device from `first` on, 16 at most, in one descent to the device. It takes 119
/// metadata blocks at most, and leaves 128, as a commit wants.
fn unmap_blocks<D: Disk, M: Metadata>(
    disk: &mut D,
    metadata: &mut M,
    id: DevId,
    first: u64,
    count: u64,
) -> Result<(), StoreError>
    requires disk { sectors_of_image (M.geometry metadata.old) ≤ (D.state disk.old).size }
    requires few { count ≤ 16 }
    requires run { first + count ≤ 2 ^ 24 }
    requires room { 256 ≤ M.room metadata.old }
    ensures altered { IsAltered M.geometry M.stands M.room 256 metadata.old metadata.new (D.state disk.old) (D.state disk.new) result
        (λ P. (now kept : Contents) → M.stands metadata.old (D.state disk.old) now kept → P now kept)
        (λ done now kept. HasUnmapped M.Metadata id first count metadata.new (D.state disk.new) now kept) }
    ensures spare { OnOk result (128 ≤ M.room metadata.new) }
{
    if count == 0 {
        return Ok(());
    }
    metadata.unmap_run(disk, id, Vb::new(first as u32), count as u32)?;
    Ok(())
}

/// Takes the data blocks of the blocks that lie wholly in a range of sectors, 2048 at most. It takes 256 metadata blocks at
/// most, and leaves 128, as a commit wants.
pub(crate) fn unmap_covered<D: Disk, M: Metadata>(
    disk: &mut D,
    metadata: &mut M,
    id: DevId,
    sector: u64,
    count: u64,
) -> Result<(), StoreError>
    requires disk { sectors_of_image (M.geometry metadata.old) ≤ (D.state disk.old).size }
    requires range { Fits (M.geometry metadata.old) (sector + count) }
    requires most { count ≤ 2048 }
    requires room { 256 ≤ M.room metadata.old }
    ensures altered { IsAltered M.geometry M.stands M.room 256 metadata.old metadata.new (D.state disk.old) (D.state disk.new) result
        (λ P. (now kept : Contents) → M.stands metadata.old (D.state disk.old) now kept → P now kept)
        (λ done now kept. HasUnmapped M.Metadata id (first_covered (M.geometry metadata.old) sector) (blocks_covered (M.geometry metadata.old) sector count)
        metadata.new (D.state disk.new) now kept) }
    ensures spare { OnOk result (128 ≤ M.room metadata.new) }
{
    let (first, blocks) = covered(&metadata.geometry(), sector, count);
    unmap_blocks(disk, metadata, id, first, blocks)
}

impl<D: Disk, M: Metadata> Pool<D, M> {
    /// Trims some sectors of a volume that there is.
    fn discard(&mut self, id: DevId, sector: u64, count: u64, fua: bool) -> Result<(), Refusal>
        requires some { 0 < count }
        requires range { Fits (M.geometry self.old.metadata) (sector + count) }
        requires lies { LiesIn M.Metadata self.old id (sector + count) }
        requires most { count ≤ 2048 }
        requires works { self.old.mode ≡ mode.Writable }
        ensures called { ((now kept : Contents) → M.stands self.old.metadata self.old.disk now kept → IsSome (device_of id now.volumes)) → PoolTried M.Metadata self.old self.new (Trim id sector count fua) result }
        ensures tried { IsTried self.old self.new (Trim id sector count fua) result }
        ensures held { self.new ≡ record self.old { disk = self.new.disk; metadata = self.new.metadata; mode = self.new.mode } }
        ensures geometry { M.geometry self.new.metadata ≡ M.geometry self.old.metadata }
        ensures flushes { ((now kept : Contents) → M.stands self.old.metadata self.old.disk now kept → IsSome (device_of id now.volumes)) → HasFlushed M.Metadata self.old self.new.disk (Trim id sector count fua) }
        ensures changes { HasChanged M.changed self.old.metadata self.new.metadata (Trim id sector count fua) result }
    {
        if lacks(&self.metadata, TRIM_ROOM) {
            return self.refuse_for_room();
        }
        reclaim_for(&mut self.disk, &mut self.metadata, 0, TRIM_ROOM)?;
        unmap_covered(&mut self.disk, &mut self.metadata, id, sector, count)?;
        if !fua {
            return Ok(());
        }
        keep(&mut self.disk, &mut self.metadata)
    }

    /// Trims sectors in a pool that works, and with `fua` keeps that.
    fn try_trim(&mut self, id: DevId, sector: u64, count: u64, fua: bool) -> Result<(), Refusal>
        requires range { Fits (M.geometry self.old.metadata) (sector + count) }
        requires lies { LiesIn M.Metadata self.old id (sector + count) }
        requires most { count ≤ 2048 }
        requires works { is_failed self.old.mode ≡ false }
        ensures called { PoolTried M.Metadata self.old self.new (Trim id sector count fua) result }
        ensures tried { IsTried self.old self.new (Trim id sector count fua) result }
        ensures held { self.new ≡ record self.old { disk = self.new.disk; metadata = self.new.metadata; mode = self.new.mode } }
        ensures geometry { M.geometry self.new.metadata ≡ M.geometry self.old.metadata }
        ensures flushes { HasFlushed M.Metadata self.old self.new.disk (Trim id sector count fua) }
        ensures changes { HasChanged M.changed self.old.metadata self.new.metadata (Trim id sector count fua) result }
        ensures read_only { is_read_only self.old.mode ≡ true → HasOnlyRead self.old self.new result }
    {
        if !self.has(id)? {
            return Err(Refusal::NoSuchDevice);
        }
        if is_read_only(self.mode) {
            return Err(Refusal::ReadOnly);
        }
        if count == 0 {
            return Ok(());
        }
        self.discard(id, sector, count, fua)
    }

    /// Takes the data blocks of the blocks of a volume that lie wholly in a range of at most 2048 sectors, and with `fua` keeps that. Blocks that lie in
    /// the range in part stay as they are. The range lies in the volume.
    ///
    /// Where 256 metadata blocks are free it flushes the disk with `fua` alone. Elsewhere it commits first, which may free some. Where it is refused by
    /// `NoMetadataSpace`, the pool wants a check from then on and is read-only, which a commit keeps.
    ///
    /// Refused by `Failed`, `NoSuchDevice`, `ReadOnly`, `NoMetadataSpace` or `Fault`.
    pub fn trim(&mut self, id: DevId, sector: u64, count: u64, fua: bool) -> Result<(), Refusal>
        requires range { EndsInVolume (view M.Metadata) self.old id (sector + count) }
        requires most { count ≤ 2048 }
        ensures called { PoolAnswered M.Metadata self.old self.new (Trim id sector count fua) result }
        ensures answered { AnswersSo M.Metadata self.old self.new (Trim id sector count fua) result }
        ensures held { self.new ≡ record self.old { disk = self.new.disk; metadata = self.new.metadata; mode = self.new.mode } }
        ensures geometry { M.geometry self.new.metadata ≡ M.geometry self.old.metadata }
        ensures flushes { FlushesSo M.Metadata self.old self.new (Trim id sector count fua) result }
        // A pool that is read-only or has failed refuses it, and its disk is only read.
        ensures read_only { self.old.mode ≢ mode.Writable → IsOnlyRead self.old self.new result }
    {
        if is_failed(self.mode) {
            return Err(Refusal::Failed);
        }
        let answer = self.try_trim(id, sector, count, fua);
        self.settle(answer)
    }
}
