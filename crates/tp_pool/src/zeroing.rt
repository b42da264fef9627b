//! Sectors of a volume become zero.
//!
//! Where holes may be left, blocks that lie wholly in the range lose their data blocks, and zeros are written into one that lies in it in part
//! where it has one. Else zeros are written to each of the sectors.
ghost use Rattle.std.specs.Prelude.{◌≡◌, ◌⊎◌, ◌+◌, ◌-◌, ◌*◌, ◌/◌, ◌%◌, ◌≤◌, ◌<◌, ◌&&◌, ℕ, Bool, IsSome, IsTrue, OnOk, Err, MatchResult, false, length};
ghost use Rattle.tp_model.specs.Geometry.{IsWithinLimits, sectors_of_image};
ghost use Rattle.tp_model.specs.Clauses.{EndsInVolume};
ghost use Rattle.tp_model.specs.Calls.{WriteZeroes, is_failed};
ghost use Rattle.tp_model.specs.Pool.{PlainPool};
ghost use Rattle.tp_model.specs.Disk.{seen};
ghost use Rattle.tp_model.specs.declared.mode.Mode.TheVariants as mode;
ghost use Rattle.tp_counts.specs.StoreErrors.{is_fault};
ghost use Rattle.tp_sharing.specs.Volumes.{device_of};
ghost use Rattle.tp_mapping.specs.Mapping.{free_places};
ghost use Rattle.tp_stored.specs.Contents.{Contents, HasContents};
ghost use Rattle.tp_meta.specs.Metadata.{AreInside, AreTold, IsInside, Ran};
ghost use Rattle.tp_shown.specs.Shown.{blocks_touched};
ghost use Rattle.tp_pool.specs.Flushes.{HasChanged};
ghost use Rattle.tp_pool.specs.AtMetadata.{AnswersSo, FlushesSo, HasBlanked, HasCleared, HasFlushed, HasFreeFor, HasZeroed, LeavesZeroes, LiesIn, PoolAnswered, PoolTried, view};
ghost use Rattle.tp_pool.specs.Held.{Fits, IsTried, most_sectors};
ghost use Rattle.tp_pool.specs.Writing.{Reaches};
ghost use Rattle.tp_pool.specs.Zeroing.{AreEdges, KnowsEdge, edge_takes};

use crate::pool::{Pool, is_failed, is_read_only};
use crate::room::{keep, lacks_metadata, make_room, test_zeroes};
use crate::sectors::{MOST_BLOCKS, block_of, touched};
use crate::trimming::unmap_covered;
use crate::writing::{put_blocks, put_part};
use tp_blocks::Blocks;
use tp_counts::StoreError;
use tp_disk::{Disk, zeros};
use tp_meta::{Home, Metadata};
use tp_model::{DevId, Geometry, Refusal};

/// How many sectors of a range lie before the first block that begins in it, and how many behind the last one that ends in it.
fn edges(geometry: &Geometry, sector: u64, count: u64) -> (u64, u64)
    requires most { count ≤ 2048 }
    requires within { sector + count ≤ most_sectors geometry.now }
    ensures edges { AreEdges geometry.now sector count result.0 result.1 }
    ensures fits { result.0 + result.1 ≤ count }
    ensures limits { IsWithinLimits geometry.now }
{
    let block_sectors = geometry.block_sectors() as u64;
    let past = sector % block_sectors;
    if past == 0 {
        return (0, count % block_sectors);
    }
    let left = block_sectors - past;
    if count <= left {
        return (count, 0);
    }
    (left, (count - left) % block_sectors)
}

/// Writes zeros to some sectors of one block, not to all of them, where it is mapped. It takes 16 metadata blocks at most.
fn zero_edge<D: Disk, M: Metadata>(
    disk: &mut D,
    metadata: &mut M,
    blocks: &mut Blocks,
    id: DevId,
    sector: u64,
    count: u64,
    home: Option<Home>,
) -> Result<(), StoreError>
    requires blocks { blocks.old ≡ M.geometry metadata.old }
    requires disk { sectors_of_image (M.geometry metadata.old) ≤ (D.state disk.old).size }
    requires inside { sector % (M.geometry metadata.old).block_sectors + count ≤ (M.geometry metadata.old).block_sectors }
    requires part { count < (M.geometry metadata.old).block_sectors }
    requires most { count ≤ 2048 }
    requires within { sector + count ≤ most_sectors (M.geometry metadata.old) }
    requires place { IsInside (M.geometry metadata.old).data_blocks home }
    requires room { 16 ≤ M.room metadata.old }
    ensures zeroed { OnOk result ((now kept : Contents) → M.stands metadata.old (D.state disk.old) now kept → Reaches (M.geometry metadata.old) id (sector + count) now.volumes
        → KnowsEdge (M.geometry metadata.old) id sector count now.volumes (M.marks metadata.old) home
        → HasZeroed M.Metadata id (sector / (M.geometry metadata.old).block_sectors) sector count (edge_takes count home) metadata.old metadata.new (D.state disk.old) (D.state disk.new) now kept) }
    ensures left { (now kept : Contents) → M.stands metadata.old (D.state disk.old) now kept → Reaches (M.geometry metadata.old) id (sector + count) now.volumes
        → KnowsEdge (M.geometry metadata.old) id sector count now.volumes (M.marks metadata.old) home
        → LeavesZeroes M.Metadata id sector count false metadata.old (D.state disk.old) (D.state disk.new) now kept }
    ensures damaged { result ≡ Err StoreError.Damaged → (now kept : Contents) → M.stands metadata.old (D.state disk.old) now kept → Reaches (M.geometry metadata.old) id (sector + count) now.volumes
        → (IsTrue (edge_takes count home) → 0 < free_places (M.geometry metadata.old) now.volumes kept.volumes) → ⊥ }
    ensures ran { Ran 16 (is_fault result) (M.room metadata.old) (M.room metadata.new) (M.geometry metadata.old) (M.geometry metadata.new) (D.state disk.old) (D.state disk.new) }
    ensures blocks { blocks.new ≡ blocks.old }
{
    if count == 0 {
        return Ok(());
    }
    if home.is_none() {
        return Ok(());
    }
    put_part(disk, metadata, blocks, id, sector, zeros(count), home)
}

/// Zeros where the blocks of a range are mapped, and no data blocks where they lie wholly in it. It takes 288 metadata blocks at most, and
/// leaves 128, as a commit wants.
fn clear_range<D: Disk, M: Metadata>(
    disk: &mut D,
    metadata: &mut M,
    blocks: &mut Blocks,
    id: DevId,
    sector: u64,
    count: u64,
    homes: &[Option<Home>],
) -> Result<(), StoreError>
    requires blocks { blocks.old ≡ M.geometry metadata.old }
    requires disk { sectors_of_image (M.geometry metadata.old) ≤ (D.state disk.old).size }
    requires some { 0 < count }
    requires most { count ≤ 2048 }
    requires within { sector + count ≤ most_sectors (M.geometry metadata.old) }
    requires homes { length homes.now ≡ blocks_touched (M.geometry metadata.old) sector count }
    requires told { (now kept : Contents) → M.stands metadata.old (D.state disk.old) now kept
        → AreTold id (sector / (M.geometry metadata.old).block_sectors) now.volumes (M.marks metadata.old) (length homes.now) homes.now }
    requires places { AreInside (M.geometry metadata.old).data_blocks (length homes.now) homes.now }
    requires room { 512 ≤ M.room metadata.old }
    ensures cleared { OnOk result ((now kept : Contents) → M.stands metadata.old (D.state disk.old) now kept → Reaches (M.geometry metadata.old) id (sector + count) now.volumes
        → HasCleared M.Metadata id sector count metadata.old metadata.new (D.state disk.old) (D.state disk.new) now kept) }
    ensures left { (now kept : Contents) → M.stands metadata.old (D.state disk.old) now kept → Reaches (M.geometry metadata.old) id (sector + count) now.volumes
        → LeavesZeroes M.Metadata id sector count false metadata.old (D.state disk.old) (D.state disk.new) now kept }
    ensures damaged { result ≡ Err StoreError.Damaged → (now kept : Contents) → M.stands metadata.old (D.state disk.old) now kept → Reaches (M.geometry metadata.old) id (sector + count) now.volumes
        → HasFreeFor M.Metadata id sector count false metadata.old now kept → ⊥ }
    ensures spare { OnOk result (128 ≤ M.room metadata.new) }
    ensures ran { Ran 288 (is_fault result) (M.room metadata.old) (M.room metadata.new) (M.geometry metadata.old) (M.geometry metadata.new) (D.state disk.old) (D.state disk.new) }
    ensures blocks { blocks.new ≡ blocks.old }
{
    let geometry = metadata.geometry();
    let (head, tail) = edges(&geometry, sector, count);
    let end = sector + count - tail;
    let first = 0;
    let last = homes.len() - 1;
    zero_edge(disk, metadata, blocks, id, sector, head, homes[first])?;
    zero_edge(disk, metadata, blocks, id, end, tail, homes[last])?;
    unmap_covered(disk, metadata, id, sector, count)
}

/// Makes sectors zero whose blocks stand there, 2048 at most, and leaves holes where it may. It takes 288 metadata blocks at most, and leaves
/// 128, as a commit wants.
fn zero_range<D: Disk, M: Metadata>(
    disk: &mut D,
    metadata: &mut M,
    blocks: &mut Blocks,
    id: DevId,
    sector: u64,
    count: u64,
    no_hole: bool,
    homes: &[Option<Home>],
) -> Result<(), StoreError>
    requires blocks { blocks.old ≡ M.geometry metadata.old }
    requires disk { sectors_of_image (M.geometry metadata.old) ≤ (D.state disk.old).size }
    requires some { 0 < count }
    requires most { count ≤ 2048 }
    requires within { sector + count ≤ most_sectors (M.geometry metadata.old) }
    requires few { length homes.now ≤ 17 }
    requires homes { length homes.now ≡ blocks_touched (M.geometry metadata.old) sector count }
    requires told { (now kept : Contents) → M.stands metadata.old (D.state disk.old) now kept
        → AreTold id (sector / (M.geometry metadata.old).block_sectors) now.volumes (M.marks metadata.old) (length homes.now) homes.now }
    requires places { AreInside (M.geometry metadata.old).data_blocks (length homes.now) homes.now }
    requires room { 512 ≤ M.room metadata.old }
    ensures blanked { OnOk result ((now kept : Contents) (s : PlainPool) → M.stands metadata.old (D.state disk.old) now kept → Reaches (M.geometry metadata.old) id (sector + count) now.volumes
        → HasContents (M.geometry metadata.old) now (seen (D.state disk.old).cells) s
        → HasBlanked M.Metadata id sector count no_hole metadata.new (D.state disk.new) kept s) }
    ensures left { (now kept : Contents) → M.stands metadata.old (D.state disk.old) now kept → Reaches (M.geometry metadata.old) id (sector + count) now.volumes
        → LeavesZeroes M.Metadata id sector count no_hole metadata.old (D.state disk.old) (D.state disk.new) now kept }
    ensures damaged { result ≡ Err StoreError.Damaged → (now kept : Contents) → M.stands metadata.old (D.state disk.old) now kept → Reaches (M.geometry metadata.old) id (sector + count) now.volumes
        → HasFreeFor M.Metadata id sector count no_hole metadata.old now kept → ⊥ }
    ensures spare { OnOk result (128 ≤ M.room metadata.new) }
    ensures ran { Ran 288 (is_fault result) (M.room metadata.old) (M.room metadata.new) (M.geometry metadata.old) (M.geometry metadata.new) (D.state disk.old) (D.state disk.new) }
    ensures blocks { blocks.new ≡ blocks.old }
{
    if no_hole {
        return put_blocks(disk, metadata, blocks, id, sector, zeros(count), homes);
    }
    clear_range(disk, metadata, blocks, id, sector, count, homes)
}

impl<D: Disk, M: Metadata> Pool<D, M> {
    /// Makes some sectors of a volume zero that there is, of which the blocks stand there.
    fn make_zero(
        &mut self,
        id: DevId,
        sector: u64,
        count: u64,
        no_hole: bool,
        homes: &mut [Option<Home>],
        fua: bool,
    ) -> Result<(), Refusal>
        requires some { 0 < count }
        requires range { Fits (M.geometry self.old.metadata) (sector + count) }
        requires lies { LiesIn M.Metadata self.old id (sector + count) }
        requires most { count ≤ 2048 }
        requires few { length homes.old ≤ 17 }
        requires homes { length homes.old ≡ blocks_touched (M.geometry self.old.metadata) sector count }
        requires told { (now kept : Contents) → M.stands self.old.metadata self.old.disk now kept
            → AreTold id (sector / (M.geometry self.old.metadata).block_sectors) now.volumes (M.marks self.old.metadata) (length homes.old) homes.old }
        requires places { AreInside (M.geometry self.old.metadata).data_blocks (length homes.old) homes.old }
        requires works { self.old.mode ≡ mode.Writable }
        ensures called { ((now kept : Contents) → M.stands self.old.metadata self.old.disk now kept → IsSome (device_of id now.volumes)) → PoolTried M.Metadata self.old self.new (WriteZeroes id sector count no_hole fua) result }
        ensures tried { IsTried self.old self.new (WriteZeroes id sector count no_hole fua) result }
        ensures held { self.new ≡ record self.old { disk = self.new.disk; metadata = self.new.metadata; mode = self.new.mode } }
        ensures geometry { M.geometry self.new.metadata ≡ M.geometry self.old.metadata }
        ensures flushes { ((now kept : Contents) → M.stands self.old.metadata self.old.disk now kept → IsSome (device_of id now.volumes)) → HasFlushed M.Metadata self.old self.new.disk (WriteZeroes id sector count no_hole fua) }
        ensures changes { HasChanged M.changed self.old.metadata self.new.metadata (WriteZeroes id sector count no_hole fua) result }
    {
        if lacks_metadata(&self.metadata) {
            return self.refuse_for_room();
        }
        let taken = test_zeroes(&self.metadata, sector, count, no_hole, homes)?;
        let first = block_of(&self.metadata.geometry(), sector);
        make_room(&mut self.disk, &mut self.metadata, taken, id, first, homes)?;
        zero_range(
            &mut self.disk,
            &mut self.metadata,
            &mut self.blocks,
            id,
            sector,
            count,
            no_hole,
            homes,
        )?;
        if !fua {
            return Ok(());
        }
        keep(&mut self.disk, &mut self.metadata)
    }

    /// Makes sectors zero in a pool that works, and with `fua` keeps that.
    fn try_write_zeroes(
        &mut self,
        id: DevId,
        sector: u64,
        count: u64,
        no_hole: bool,
        fua: bool,
    ) -> Result<(), Refusal>
        requires range { Fits (M.geometry self.old.metadata) (sector + count) }
        requires lies { LiesIn M.Metadata self.old id (sector + count) }
        requires most { count ≤ 2048 }
        requires works { is_failed self.old.mode ≡ false }
        ensures called { PoolTried M.Metadata self.old self.new (WriteZeroes id sector count no_hole fua) result }
        ensures tried { IsTried self.old self.new (WriteZeroes id sector count no_hole fua) result }
        ensures held { self.new ≡ record self.old { disk = self.new.disk; metadata = self.new.metadata; mode = self.new.mode } }
        ensures geometry { M.geometry self.new.metadata ≡ M.geometry self.old.metadata }
        ensures flushes { HasFlushed M.Metadata self.old self.new.disk (WriteZeroes id sector count no_hole fua) }
        ensures changes { HasChanged M.changed self.old.metadata self.new.metadata (WriteZeroes id sector count no_hole fua) result }
    {
        let mut places = [None; MOST_BLOCKS];
        let homes = &mut places[..touched(&self.geometry(), sector, count)];
        if !self.find(id, sector, count, homes)? {
            return Err(Refusal::NoSuchDevice);
        }
        if is_read_only(self.mode) {
            return Err(Refusal::ReadOnly);
        }
        if count == 0 {
            return Ok(());
        }
        self.make_zero(id, sector, count, no_hole, homes, fua)
    }

    /// Makes at most 2048 sectors of a volume zero, and with `fua` keeps that. With `no_hole` each of them has a data block then. Else blocks that lie
    /// wholly in the range have none, and one that lies in it in part has one where it had one. The range lies in the volume.
    ///
    /// Where 512 metadata blocks are free and as many data blocks as it takes, it flushes the disk with `fua` alone. Elsewhere it commits first, which may
    /// free some. Where it is refused by `NoMetadataSpace`, the pool wants a check from then on and is read-only, which a commit keeps.
    ///
    /// Refused by `Failed`, `NoSuchDevice`, `ReadOnly`, `NoMetadataSpace`, `NoDataSpace` or `Fault`.
    pub fn write_zeroes(
        &mut self,
        id: DevId,
        sector: u64,
        count: u64,
        no_hole: bool,
        fua: bool,
    ) -> Result<(), Refusal>
        requires range { EndsInVolume (view M.Metadata) self.old id (sector + count) }
        requires most { count ≤ 2048 }
        ensures called { PoolAnswered M.Metadata self.old self.new (WriteZeroes id sector count no_hole fua) result }
        ensures answered { AnswersSo M.Metadata self.old self.new (WriteZeroes id sector count no_hole fua) result }
        ensures held { self.new ≡ record self.old { disk = self.new.disk; metadata = self.new.metadata; mode = self.new.mode } }
        ensures geometry { M.geometry self.new.metadata ≡ M.geometry self.old.metadata }
        ensures flushes { FlushesSo M.Metadata self.old self.new (WriteZeroes id sector count no_hole fua) result }
    {
        if is_failed(self.mode) {
            return Err(Refusal::Failed);
        }
        let answer = self.try_write_zeroes(id, sector, count, no_hole, fua);
        self.settle(answer)
    }
}
