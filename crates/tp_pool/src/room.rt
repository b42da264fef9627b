//! The room that a write takes, and the commit that frees some.
ghost use Rattle.std.specs.Prelude.{◌≡◌, ◌⊎◌, ◌+◌, ◌/◌, ◌<◌, ◌≤◌, ◌^◌, ◌↔◌, ◌&&◌, ◌==◌, nat_le, nat_lt, not, ℕ, Bool, List, IsTrue, length, Err, IfErr, IfOk, Ok, OnOk, if◌then◌else◌, false, is_err, true};
ghost use Rattle.tp_model.specs.Geometry.{Geometry, sectors_of_image};
ghost use Rattle.tp_model.specs.Calls.{WriteZeroes};
ghost use Rattle.tp_model.specs.Refusals.{is_fault};
ghost use Rattle.tp_model.specs.Disk.{DiskState, FaultHasCause, IsSameDisk};
ghost use Rattle.tp_sharing.specs.Volumes.{Volumes, used};
ghost use Rattle.tp_model.specs.DiskStops.{LeavesOnly};
ghost use Rattle.tp_mapping.specs.Mapping.{IsWithin, free_places};
ghost use Rattle.tp_meta.specs.Metadata.{AreInside, AreTold, IsLater, RanWithFlushes};
ghost use Rattle.tp_stored.specs.Contents.{Contents};
ghost use Rattle.tp_shown.specs.Shown.{blocks_touched, blocks_wanted, blocks_wanted_by};
ghost use Rattle.tp_pool.specs.Held.{Fits, most_sectors};
ghost use Rattle.tp_pool.specs.AtMetadata.{IsAsBefore, IsKept};
ghost use Rattle.tp_pool.specs.Writing.{IsReclaiming, LacksBlocks, LacksForRemoval, LacksMetadata, blocks_taken, blocks_taken_by, told_taken, told_wanted};
ghost use Rattle.tp_pool.specs.Zeroing.{told_owned};

use crate::sectors::{block_of, covered};
use tp_disk::{Disk, Fault};
use tp_meta::{Home, Metadata};
use tp_model::{DevId, Geometry, Refusal, Vb};

/// How many metadata blocks must be free before a call that may change metadata.
pub(crate) const METADATA_ROOM: u32 = 512;

/// The most metadata blocks that the removal of a volume takes.
const DELETE_ROOM: u32 = 16;

/// How many metadata blocks must be free before a TRIM.
pub(crate) const TRIM_ROOM: u32 = 256;

/// How many must be free before a volume is removed while a metadata root is held: nodes that the held root shares are copied then.
const REMOVAL_ROOM: u32 = 256;

/// How many of the blocks of a request have no data block of their own, and how many are to be written to a new one.
#[derive(Clone, Copy)]
pub(crate) struct Demand {
    pub(crate) wanted: u32,
    pub(crate) taken: u32,
}

/// Whether fewer metadata blocks than `least` are free.
pub(crate) fn lacks<M: Metadata>(metadata: &M, least: u32) -> bool
    ensures { (disk : DiskState) (now kept : Contents) → M.stands metadata.now disk now kept
        → IsTrue result ↔ LacksBlocks least (M.geometry metadata.now) now }
{
    let geometry = metadata.geometry();
    geometry
        .metadata_blocks()
        .saturating_sub(metadata.used_metadata())
        < least
}

/// Whether fewer metadata blocks are free than a call that may change metadata wants.
pub(crate) fn lacks_metadata<M: Metadata>(metadata: &M) -> bool
    ensures { (disk : DiskState) (now kept : Contents) → M.stands metadata.now disk now kept
        → IsTrue result ↔ LacksMetadata (M.geometry metadata.now) now }
{
    lacks(metadata, METADATA_ROOM)
}

/// Whether a metadata root is held.
pub(crate) fn holds_root<M: Metadata>(metadata: &M) -> bool
    ensures { (disk : DiskState) (now kept : Contents) → M.stands metadata.now disk now kept → result ≡ not (now.held_root == 0) }
{
    metadata.held_root() != 0
}

/// Whether a metadata root is held, and fewer metadata blocks are free than the removal of a volume wants then.
pub(crate) fn lacks_for_removal<M: Metadata>(metadata: &M) -> bool
    ensures { (disk : DiskState) (now kept : Contents) → M.stands metadata.now disk now kept
        → IsTrue result ↔ LacksForRemoval (M.geometry metadata.now) now }
{
    let is_held = holds_root(metadata);
    let is_short = lacks(metadata, REMOVAL_ROOM);
    is_held && is_short
}

fn wants_block(home: &Option<Home>) -> bool
    ensures { result ≡ told_wanted home.now }
{
    match home {
        Some(home) => home.is_shared,
        None => true,
    }
}

fn takes_block(home: &Option<Home>) -> bool
    ensures { result ≡ told_taken home.now }
{
    match home {
        Some(home) => home.is_shared || home.is_hot,
        None => true,
    }
}

/// Counts the blocks of a request, which stand there.
fn survey(homes: &[Option<Home>]) -> Demand
    requires few { length homes.now ≤ 17 }
    ensures told { (g : Geometry) (id first : ℕ) (volumes : Volumes) (marks : List Bool) → IsWithin g volumes → AreTold id first volumes marks (length homes.now) homes.now
        → (result.wanted ≡ blocks_wanted id volumes first (length homes.now)) × (result.taken ≡ blocks_taken id volumes marks first (length homes.now)) }
{
    let mut wanted = 0;
    let mut taken = 0;
    for i in 0..homes.len() {
        let home = homes[i];
        wanted += wants_block(&home) as u32;
        taken += takes_block(&home) as u32;
    }
    Demand { wanted, taken }
}

/// Tests whether there are as many data blocks as a request wants. It tells how many blocks are to get one.
fn admit<M: Metadata>(metadata: &M, demand: &Demand) -> Result<u32, Refusal>
    ensures room { IfOk result (λ taken. (taken ≡ demand.now.taken)
        × ((disk : DiskState) (now kept : Contents) → M.stands metadata.now disk now kept → used now.volumes + demand.now.wanted ≤ (M.geometry metadata.now).data_blocks)) }
    ensures full { result ≡ Err Refusal.NoDataSpace → (disk : DiskState) (now kept : Contents) → M.stands metadata.now disk now kept
        → (M.geometry metadata.now).data_blocks < used now.volumes + demand.now.wanted }
    ensures only { IfErr result (λ refusal. refusal ≡ Refusal.NoDataSpace) }
{
    let wanted = demand.wanted as u64;
    let data_blocks = metadata.geometry().data_blocks() as u64;
    if wanted > data_blocks || metadata.used_data() > data_blocks - wanted {
        return Err(Refusal::NoDataSpace);
    }
    Ok(demand.taken)
}

/// Whether a request of zeros leaves a block that it touches with a data block of its own.
fn is_owned(no_hole: bool, is_covered: bool, home: &Option<Home>) -> bool
    ensures { result ≡ told_owned no_hole is_covered home.now }
{
    if no_hole {
        return true;
    }
    if is_covered {
        return false;
    }
    home.is_some()
}

/// Whether a block is one of `count` blocks from this one on.
fn is_among(first: u64, count: u64, block: u64) -> bool
    ensures { result ≡ (nat_le first block && nat_lt block (first + count)) }
{
    first <= block && block - first < count
}

/// What one block of a request adds to its demand: nothing, unless the block is to have a data block of its own behind it.
fn demand_of(is_owned: bool, home: &Option<Home>) -> Demand
    ensures wanted { result.wanted ≡ (if is_owned && told_wanted home.now then 1 else 0) }
    ensures taken { result.taken ≡ (if is_owned && told_taken home.now then 1 else 0) }
    ensures one { (result.wanted ≤ 1) × (result.taken ≤ 1) }
{
    if !is_owned {
        return Demand {
            wanted: 0,
            taken: 0,
        };
    }
    Demand {
        wanted: wants_block(home) as u32,
        taken: takes_block(home) as u32,
    }
}

/// Counts the blocks of a request of zeros, which stand there.
fn survey_zeroes(
    geometry: &Geometry,
    sector: u64,
    count: u64,
    no_hole: bool,
    homes: &[Option<Home>],
) -> Demand
    requires most { count ≤ 2048 }
    requires within { sector + count ≤ most_sectors geometry.now }
    requires some { 0 < count }
    requires few { length homes.now ≤ 17 }
    requires homes { length homes.now ≡ blocks_touched geometry.now sector count }
    ensures told { (fua : Bool) (id : ℕ) (volumes : Volumes) (marks : List Bool) → IsWithin geometry.now volumes
        → AreTold id (sector / geometry.now.block_sectors) volumes marks (length homes.now) homes.now
        → (result.wanted ≡ blocks_wanted_by geometry.now (WriteZeroes id sector count no_hole fua) id volumes (sector / geometry.now.block_sectors) (length homes.now))
        × (result.taken ≡ blocks_taken_by geometry.now (WriteZeroes id sector count no_hole fua) id volumes marks (sector / geometry.now.block_sectors) (length homes.now)) }
{
    let first = block_of(geometry, sector).number() as u64;
    let (first_covered, covered) = covered(geometry, sector, count);
    let mut wanted = 0;
    let mut taken = 0;
    for i in 0..homes.len() {
        let home = homes[i];
        let is_covered = is_among(first_covered, covered, first + i as u64);
        let demand = demand_of(is_owned(no_hole, is_covered, &home), &home);
        wanted += demand.wanted;
        taken += demand.taken;
    }
    Demand { wanted, taken }
}

/// Tests the data blocks that there are for a write to blocks that stand there. It tells how many of them are to get one.
pub(crate) fn test_room<M: Metadata>(metadata: &M, homes: &[Option<Home>]) -> Result<u32, Refusal>
    requires few { length homes.now ≤ 17 }
    ensures room { IfOk result (λ taken. (disk : DiskState) (now kept : Contents) (id first : ℕ) → M.stands metadata.now disk now kept
        → AreTold id first now.volumes (M.marks metadata.now) (length homes.now) homes.now
        → (used now.volumes + blocks_wanted id now.volumes first (length homes.now) ≤ (M.geometry metadata.now).data_blocks)
        × (taken ≡ blocks_taken id now.volumes (M.marks metadata.now) first (length homes.now))) }
    ensures full { result ≡ Err Refusal.NoDataSpace → (disk : DiskState) (now kept : Contents) (id first : ℕ) → M.stands metadata.now disk now kept
        → AreTold id first now.volumes (M.marks metadata.now) (length homes.now) homes.now
        → (M.geometry metadata.now).data_blocks < used now.volumes + blocks_wanted id now.volumes first (length homes.now) }
    ensures only { IfErr result (λ refusal. refusal ≡ Refusal.NoDataSpace) }
{
    let demand = survey(homes);
    admit(metadata, &demand)
}

/// The same for a request of zeros.
pub(crate) fn test_zeroes<M: Metadata>(
    metadata: &M,
    sector: u64,
    count: u64,
    no_hole: bool,
    homes: &[Option<Home>],
) -> Result<u32, Refusal>
    requires some { 0 < count }
    requires most { count ≤ 2048 }
    requires within { Fits (M.geometry metadata.now) (sector + count) }
    requires few { length homes.now ≤ 17 }
    requires homes { length homes.now ≡ blocks_touched (M.geometry metadata.now) sector count }
    ensures room { IfOk result (λ taken. (disk : DiskState) (now kept : Contents) (fua : Bool) (id : ℕ) → M.stands metadata.now disk now kept
        → AreTold id (sector / (M.geometry metadata.now).block_sectors) now.volumes (M.marks metadata.now) (length homes.now) homes.now
        → (used now.volumes + blocks_wanted_by (M.geometry metadata.now) (WriteZeroes id sector count no_hole fua) id now.volumes (sector / (M.geometry metadata.now).block_sectors) (length homes.now) ≤ (M.geometry metadata.now).data_blocks)
        × (taken ≡ blocks_taken_by (M.geometry metadata.now) (WriteZeroes id sector count no_hole fua) id now.volumes (M.marks metadata.now) (sector / (M.geometry metadata.now).block_sectors) (length homes.now))) }
    ensures full { result ≡ Err Refusal.NoDataSpace → (disk : DiskState) (now kept : Contents) (fua : Bool) (id : ℕ) → M.stands metadata.now disk now kept
        → AreTold id (sector / (M.geometry metadata.now).block_sectors) now.volumes (M.marks metadata.now) (length homes.now) homes.now
        → (M.geometry metadata.now).data_blocks < used now.volumes + blocks_wanted_by (M.geometry metadata.now) (WriteZeroes id sector count no_hole fua) id now.volumes (sector / (M.geometry metadata.now).block_sectors) (length homes.now) }
    ensures only { IfErr result (λ refusal. refusal ≡ Refusal.NoDataSpace) }
{
    let geometry = metadata.geometry();
    let demand = survey_zeroes(&geometry, sector, count, no_hole, homes);
    admit(metadata, &demand)
}

/// A commit.
pub(crate) fn keep<D: Disk, M: Metadata>(disk: &mut D, metadata: &mut M) -> Result<(), Refusal>
    requires disk { sectors_of_image (M.geometry metadata.old) ≤ (D.state disk.old).size }
    ensures kept { OnOk result ((now kept : Contents) → M.stands metadata.old (D.state disk.old) now kept → now.meta_used + 128 ≤ (M.geometry metadata.old).metadata_blocks
        → IsKept M.Metadata metadata.old metadata.new (D.state disk.old) (D.state disk.new) now
        × (M.room metadata.new + now.meta_used ≡ (M.geometry metadata.old).metadata_blocks)) }
    ensures left { (now kept : Contents) → M.stands metadata.old (D.state disk.old) now kept → now.meta_used + 128 ≤ (M.geometry metadata.old).metadata_blocks
        → LeavesOnly (D.state disk.old) (D.state disk.new) (IsReclaiming (M.geometry metadata.old) now kept (D.state disk.old)) }
    ensures only { IfErr result (λ refusal. refusal ≡ Refusal.Fault) }
    ensures geometry { M.geometry metadata.new ≡ M.geometry metadata.old }
    ensures ran { RanWithFlushes (if M.changed metadata.old then 2 else 1) 2 (is_fault result) result (D.state disk.old) (D.state disk.new) }
    ensures unchanged { OnOk result (M.changed metadata.new ≡ false) }
{
    match metadata.commit(disk) {
        Ok(()) => Ok(()),
        Err(Fault) => Err(Refusal::Fault),
    }
}

/// Frees blocks by a commit, where fewer are free than a call takes: so many data blocks, and so many metadata blocks, at
/// least 128. Elsewhere it does nothing. It tells whether there was a commit.
pub(crate) fn reclaim_for<D: Disk, M: Metadata>(
    disk: &mut D,
    metadata: &mut M,
    taken: u32,
    least: u32,
) -> Result<bool, Refusal>
    requires disk { sectors_of_image (M.geometry metadata.old) ≤ (D.state disk.old).size }
    requires least { 128 ≤ least }
    ensures room { OnOk result (least ≤ M.room metadata.new) }
    ensures done { OnOk result ((now kept : Contents) → M.stands metadata.old (D.state disk.old) now kept → (LacksBlocks least (M.geometry metadata.old) now → ⊥)
        → ((IsAsBefore M.Metadata metadata.old metadata.new (D.state disk.old) (D.state disk.new)) × (taken ≤ free_places (M.geometry metadata.old) now.volumes kept.volumes))
        ⊎ IsKept M.Metadata metadata.old metadata.new (D.state disk.old) (D.state disk.new) now) }
    ensures rests { result ≡ Ok false → (metadata.new ≡ metadata.old) × (D.state disk.new ≡ D.state disk.old) }
    ensures needed { result ≡ Ok true → least ≤ M.room metadata.old → (now kept : Contents) → M.stands metadata.old (D.state disk.old) now kept
        → taken ≤ free_places (M.geometry metadata.old) now.volumes kept.volumes → ⊥ }
    ensures left { (now kept : Contents) → M.stands metadata.old (D.state disk.old) now kept → (LacksBlocks least (M.geometry metadata.old) now → ⊥)
        → LeavesOnly (D.state disk.old) (D.state disk.new) (IsReclaiming (M.geometry metadata.old) now kept (D.state disk.old)) }
    ensures damaged { result ≡ Err Refusal.Damaged → (now kept : Contents) → M.stands metadata.old (D.state disk.old) now kept → (LacksBlocks least (M.geometry metadata.old) now → ⊥) → ⊥ }
    ensures only { IfErr result (λ refusal. (refusal ≡ Refusal.Fault) ⊎ (refusal ≡ Refusal.Damaged)) }
    ensures geometry { M.geometry metadata.new ≡ M.geometry metadata.old }
    ensures same_disk { IsSameDisk (D.state disk.old) (D.state disk.new) }
    ensures cause { FaultHasCause (is_fault result) (D.state disk.old) (D.state disk.new) }
    ensures flushes { ((D.state disk.old).flushes ≤ (D.state disk.new).flushes) × ((D.state disk.new).flushes ≤ (D.state disk.old).flushes + 2) }
    ensures idle { least ≤ M.room metadata.old → (now kept : Contents) → M.stands metadata.old (D.state disk.old) now kept → taken ≤ free_places (M.geometry metadata.old) now.volumes kept.volumes
        → (metadata.new ≡ metadata.old) × (D.state disk.new ≡ D.state disk.old) }
    ensures time { IsLater (D.state disk.old) (D.state disk.new) }
{
    let is_enough = metadata.free_data() >= taken as u64;
    if metadata.free_metadata() >= least && is_enough {
        return Ok(false);
    }
    keep(disk, metadata)?;
    if metadata.free_metadata() < least {
        return Err(Refusal::Damaged);
    }
    Ok(true)
}

/// Frees blocks by a commit, where fewer are free than a call takes: so many data blocks, and metadata blocks. Elsewhere it does
/// nothing. It tells whether there was a commit.
pub(crate) fn reclaim<D: Disk, M: Metadata>(
    disk: &mut D,
    metadata: &mut M,
    taken: u32,
) -> Result<bool, Refusal>
    requires disk { sectors_of_image (M.geometry metadata.old) ≤ (D.state disk.old).size }
    ensures room { OnOk result (512 ≤ M.room metadata.new) }
    ensures done { OnOk result ((now kept : Contents) → M.stands metadata.old (D.state disk.old) now kept → (LacksMetadata (M.geometry metadata.old) now → ⊥)
        → ((IsAsBefore M.Metadata metadata.old metadata.new (D.state disk.old) (D.state disk.new)) × (taken ≤ free_places (M.geometry metadata.old) now.volumes kept.volumes))
        ⊎ IsKept M.Metadata metadata.old metadata.new (D.state disk.old) (D.state disk.new) now) }
    ensures rests { result ≡ Ok false → (metadata.new ≡ metadata.old) × (D.state disk.new ≡ D.state disk.old) }
    ensures needed { result ≡ Ok true → 512 ≤ M.room metadata.old → (now kept : Contents) → M.stands metadata.old (D.state disk.old) now kept
        → taken ≤ free_places (M.geometry metadata.old) now.volumes kept.volumes → ⊥ }
    ensures left { (now kept : Contents) → M.stands metadata.old (D.state disk.old) now kept → (LacksMetadata (M.geometry metadata.old) now → ⊥)
        → LeavesOnly (D.state disk.old) (D.state disk.new) (IsReclaiming (M.geometry metadata.old) now kept (D.state disk.old)) }
    ensures damaged { result ≡ Err Refusal.Damaged → (now kept : Contents) → M.stands metadata.old (D.state disk.old) now kept → (LacksMetadata (M.geometry metadata.old) now → ⊥) → ⊥ }
    ensures only { IfErr result (λ refusal. (refusal ≡ Refusal.Fault) ⊎ (refusal ≡ Refusal.Damaged)) }
    ensures geometry { M.geometry metadata.new ≡ M.geometry metadata.old }
    ensures same_disk { IsSameDisk (D.state disk.old) (D.state disk.new) }
    ensures cause { FaultHasCause (is_fault result) (D.state disk.old) (D.state disk.new) }
    ensures flushes { ((D.state disk.old).flushes ≤ (D.state disk.new).flushes) × ((D.state disk.new).flushes ≤ (D.state disk.old).flushes + 2) }
    ensures idle { 512 ≤ M.room metadata.old → (now kept : Contents) → M.stands metadata.old (D.state disk.old) now kept → taken ≤ free_places (M.geometry metadata.old) now.volumes kept.volumes
        → (metadata.new ≡ metadata.old) × (D.state disk.new ≡ D.state disk.old) }
    ensures time { IsLater (D.state disk.old) (D.state disk.new) }
{
    reclaim_for(disk, metadata, taken, METADATA_ROOM)
}

/// Frees metadata blocks by a commit, where fewer are free than the removal of a volume takes. Elsewhere it does nothing.
pub(crate) fn reclaim_metadata<D: Disk, M: Metadata>(
    disk: &mut D,
    metadata: &mut M,
) -> Result<(), Refusal>
    requires disk { sectors_of_image (M.geometry metadata.old) ≤ (D.state disk.old).size }
    ensures room { OnOk result (16 ≤ M.room metadata.new) }
    ensures done { OnOk result ((now kept : Contents) → M.stands metadata.old (D.state disk.old) now kept → now.meta_used + 128 ≤ (M.geometry metadata.old).metadata_blocks
        → IsAsBefore M.Metadata metadata.old metadata.new (D.state disk.old) (D.state disk.new)
        ⊎ IsKept M.Metadata metadata.old metadata.new (D.state disk.old) (D.state disk.new) now) }
    ensures left { (now kept : Contents) → M.stands metadata.old (D.state disk.old) now kept → now.meta_used + 128 ≤ (M.geometry metadata.old).metadata_blocks
        → LeavesOnly (D.state disk.old) (D.state disk.new) (IsReclaiming (M.geometry metadata.old) now kept (D.state disk.old)) }
    ensures damaged { result ≡ Err Refusal.Damaged → (now kept : Contents) → M.stands metadata.old (D.state disk.old) now kept
        → now.meta_used + 128 ≤ (M.geometry metadata.old).metadata_blocks → ⊥ }
    ensures only { IfErr result (λ refusal. (refusal ≡ Refusal.Fault) ⊎ (refusal ≡ Refusal.Damaged)) }
    ensures geometry { M.geometry metadata.new ≡ M.geometry metadata.old }
    ensures same_disk { IsSameDisk (D.state disk.old) (D.state disk.new) }
    ensures cause { FaultHasCause (is_fault result) (D.state disk.old) (D.state disk.new) }
    ensures flushes { ((D.state disk.old).flushes ≤ (D.state disk.new).flushes) × ((D.state disk.new).flushes ≤ (D.state disk.old).flushes + 2) }
    ensures idle { 16 ≤ M.room metadata.old → (metadata.new ≡ metadata.old) × (D.state disk.new ≡ D.state disk.old) }
    ensures time { IsLater (D.state disk.old) (D.state disk.new) }
{
    if metadata.free_metadata() >= DELETE_ROOM {
        return Ok(());
    }
    keep(disk, metadata)?;
    if metadata.free_metadata() < DELETE_ROOM {
        return Err(Refusal::Damaged);
    }
    Ok(())
}

/// Frees blocks as `reclaim` does for a request, whose blocks from `first` on stand there. A commit clears the marks, so they are
/// looked up anew behind one.
pub(crate) fn make_room<D: Disk, M: Metadata>(
    disk: &mut D,
    metadata: &mut M,
    taken: u32,
    id: DevId,
    first: Vb,
    homes: &mut [Option<Home>],
) -> Result<(), Refusal>
    requires disk { sectors_of_image (M.geometry metadata.old) ≤ (D.state disk.old).size }
    requires few { length homes.old ≤ 17 }
    requires run { first + length homes.old ≤ 2 ^ 24 }
    requires told { (now kept : Contents) → M.stands metadata.old (D.state disk.old) now kept → AreTold id first now.volumes (M.marks metadata.old) (length homes.old) homes.old }
    requires places { AreInside (M.geometry metadata.old).data_blocks (length homes.old) homes.old }
    ensures length { length homes.new ≡ length homes.old }
    ensures told { OnOk result ((now kept : Contents) → M.stands metadata.new (D.state disk.new) now kept → AreTold id first now.volumes (M.marks metadata.new) (length homes.old) homes.new) }
    ensures places { OnOk result (AreInside (M.geometry metadata.old).data_blocks (length homes.old) homes.new) }
    ensures room { OnOk result (512 ≤ M.room metadata.new) }
    ensures done { OnOk result ((now kept : Contents) → M.stands metadata.old (D.state disk.old) now kept → (LacksMetadata (M.geometry metadata.old) now → ⊥)
        → ((IsAsBefore M.Metadata metadata.old metadata.new (D.state disk.old) (D.state disk.new)) × (taken ≤ free_places (M.geometry metadata.old) now.volumes kept.volumes))
        ⊎ IsKept M.Metadata metadata.old metadata.new (D.state disk.old) (D.state disk.new) now) }
    ensures left { (now kept : Contents) → M.stands metadata.old (D.state disk.old) now kept → (LacksMetadata (M.geometry metadata.old) now → ⊥)
        → LeavesOnly (D.state disk.old) (D.state disk.new) (IsReclaiming (M.geometry metadata.old) now kept (D.state disk.old)) }
    ensures damaged { result ≡ Err Refusal.Damaged → (now kept : Contents) → M.stands metadata.old (D.state disk.old) now kept → (LacksMetadata (M.geometry metadata.old) now → ⊥) → ⊥ }
    ensures only { IfErr result (λ refusal. (refusal ≡ Refusal.Fault) ⊎ (refusal ≡ Refusal.Damaged)) }
    ensures geometry { M.geometry metadata.new ≡ M.geometry metadata.old }
    ensures cause { FaultHasCause (is_fault result) (D.state disk.old) (D.state disk.new) }
    ensures same_disk { IsSameDisk (D.state disk.old) (D.state disk.new) }
    ensures flushes { ((D.state disk.old).flushes ≤ (D.state disk.new).flushes) × ((D.state disk.new).flushes ≤ (D.state disk.old).flushes + 2) }
    ensures idle { 512 ≤ M.room metadata.old → (now kept : Contents) → M.stands metadata.old (D.state disk.old) now kept → taken ≤ free_places (M.geometry metadata.old) now.volumes kept.volumes
        → (metadata.new ≡ metadata.old) × (D.state disk.new ≡ D.state disk.old) }
    ensures time { IsLater (D.state disk.old) (D.state disk.new) }
{
    if !reclaim(disk, metadata, taken)? {
        return Ok(());
    }
    metadata.look_up_run(disk, id, first, homes)?;
    Ok(())
}
