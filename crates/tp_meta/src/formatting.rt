//! The formatting of a disk: an empty pool in place of what the disk held.
ghost use Rattle.std.specs.Prelude.{◌≡◌, ◌≢◌, ◌+◌, ◌*◌, ◌%◌, ◌<◌, ◌≤◌, ◌⊎◌, ◌∷◌, [], true, Ok, Err, IfErr, IfOk, IsTrue, OnOk, is_err, is_ok};
ghost use Rattle.tp_model.specs.Geometry.{IsWithinLimits, fixed_part, sectors_of_image};
ghost use Rattle.tp_model.specs.Refusals.{is_fault};
ghost use Rattle.tp_model.specs.Sectors.{zero_sector};
ghost use Rattle.tp_model.specs.Disk.{FaultHasCause, IsSameDisk, IsSettled, after_flush, after_read, after_write, seen};
ghost use Rattle.tp_model.specs.DiskStops.{Leaves, LeavesOnly, LeavesOutside, SameOutside};
ghost use Rattle.tp_layout.specs.Node.{IsNode, node_bytes};
ghost use Rattle.tp_layout.specs.Super.{slot_number};
ghost use Rattle.tp_layout.specs.Value.{node_value};
ghost use Rattle.tp_layout.specs.declared.counts.Part.TheVariants.{Data, Metadata};
ghost use Rattle.tp_layout.specs.declared.superblock.Superblock.{Superblock};
ghost use Rattle.tp_image.specs.Slots.{Chooses, slot_sector};
ghost use Rattle.tp_image.specs.Nodes.{block_at};
ghost use Rattle.tp_image.specs.Fresh.{HasFreshContents, IsFreshOf, fresh_counts, fresh_leaf, fresh_super};
ghost use Rattle.tp_counts.specs.Counts.{same_counts};
ghost use Rattle.tp_stored.specs.Commit.{IsCommit, held_by};
ghost use Rattle.tp_tm.specs.Holds.{Holds};
ghost use Rattle.tp_meta.specs.Format.{IsBlank, IsClearing, IsFormatting, IsNoPool, IsOldPool, fresh_nodes, fresh_store};

use crate::stale::AreaMarks;
use arrayvec::ArrayVec;
use std::alloc::{AllocError, Global};
use tp_counts::Counts;
use tp_disk::{Disk, Fault};
use tp_layout::{Node, Part, SlotId, Superblock, TreeKind, Version, write_node};
use tp_model::{Geometry, Mb, Refusal};
use tp_super::{load, store};
use tp_tm::{BLOCK, Tm};

/// Makes a disk that of an empty pool of this geometry, whatever it held, and answers the pool's store of nodes.
///
/// It refuses, in this order: with `Memory` where there is no memory for the counts, and with `BadGeometry` where the
/// disk has fewer sectors than the image; both before any disk call. It refuses with `Fault` where the disk failed.
///
/// At any moment of the call, also of one that the disk failed in, a stop leaves the old pool, no pool, or the new one:
/// the slot of the old superblock is cleared only when the other one has been, and each of both steps is flushed.
pub fn format<D: Disk>(alloc: Global, disk: &mut D, geometry: Geometry) -> Result<Tm, Refusal>
    ensures answer { IfOk result (λ tm. tm ≡ fresh_store geometry) }
    ensures fresh { IfOk result (λ tm. IsFreshOf geometry (seen (D.state disk.new).cells)) }
    ensures settled { IfOk result (λ tm. IsSettled (D.state disk.new).cells) }
    // The root is held, and each block of the fixed part.
    ensures holds { IfOk result (λ tm. Holds tm (D.state disk.new) [] (held_by geometry (fixed_part geometry) 0) (fresh_nodes geometry)) }
    // It is the image of a commit, to go on from.
    ensures commit { IfOk result (λ tm. IsCommit (seen (D.state disk.new).cells) (fresh_super geometry) (fresh_nodes geometry)) }
    ensures small { result ≡ Err Refusal.BadGeometry → (D.state disk.old).size < sectors_of_image geometry }
    ensures large { (D.state disk.old).size < sectors_of_image geometry → (result ≡ Err Refusal.BadGeometry) ⊎ (result ≡ Err Refusal.Memory) }
    ensures only { IfErr result (λ refusal. (refusal ≡ Refusal.Memory) ⊎ (refusal ≡ Refusal.BadGeometry) ⊎ (refusal ≡ Refusal.Fault)) }
    ensures untouched { IfErr result (λ refusal. refusal ≢ Refusal.Fault → D.state disk.new ≡ D.state disk.old) }
    ensures any_moment { (last : Superblock) → IsTrue (D.state disk.old).is_honest → Leaves (λ image. Chooses image (Ok last)) (D.state disk.old).cells
        → LeavesOnly (D.state disk.old) (D.state disk.new) (IsFormatting last geometry (D.state disk.old).cells) }
    ensures same { IsSameDisk (D.state disk.old) (D.state disk.new) }
    ensures cause { FaultHasCause (is_fault result) (D.state disk.old) (D.state disk.new) }
    ensures flushes { ((D.state disk.old).flushes ≤ (D.state disk.new).flushes) × ((D.state disk.new).flushes ≤ (D.state disk.old).flushes + 4) }
    ensures flushed { IfOk result (λ tm. (D.state disk.new).flushes ≡ (D.state disk.old).flushes + 4) }
{
    let Ok(mut tm) = empty_store(alloc, geometry) else {
        return Err(Refusal::Memory);
    };
    if disk.sectors() < geometry.image_sectors() {
        return Err(Refusal::BadGeometry);
    }
    let Ok(()) = clear_slots(disk) else {
        return Err(Refusal::Fault);
    };
    let Ok(()) = lay_out(disk, &mut tm) else {
        return Err(Refusal::Fault);
    };
    Ok(tm)
}

/// The counts of the metadata blocks: one for each of the fixed part, and one for the root.
fn fresh_metadata(alloc: Global, geometry: Geometry) -> Result<Counts, AllocError>
    ensures value { IfOk result (λ counts. counts ≡ same_counts geometry Metadata (fresh_counts geometry Metadata)) }
    ensures within { IfOk result (λ counts. IsWithinLimits geometry) }
{
    let mut counts = Counts::new(alloc, geometry, Part::Metadata)?;
    for block in 0..geometry.fixed_part() + 1 {
        counts.inc(block as u64);
    }
    counts.keep();
    Ok(counts)
}

/// The store of nodes of the pool.
fn empty_store(alloc: Global, geometry: Geometry) -> Result<Tm, AllocError>
    ensures value { IfOk result (λ tm. tm ≡ fresh_store geometry) }
    ensures within { IfOk result (λ tm. IsWithinLimits geometry) }
{
    let metadata = fresh_metadata(alloc, geometry)?;
    let others = Counts::new(alloc, geometry, Part::Data)?;
    let none = Mb::new(0);
    Ok(Tm::new(geometry, metadata, others, none))
}

/// The slot of the disk's superblock, and slot 0 where the slots give none.
fn chosen_slot<D: Disk>(disk: &mut D) -> Result<SlotId, Fault>
    ensures found { IfOk result (λ slot. (last : Superblock) → IsTrue (D.state disk.old).is_honest → Chooses (seen (D.state disk.old).cells) (Ok last)
        → slot_number slot ≡ last.sequence % 2) }
    ensures state { D.state disk.new ≡ after_read (is_ok result) (D.state disk.old) }
{
    match load(disk) {
        Ok(superblock) => Ok(superblock.slot()),
        Err(refusal) => {
            if refusal == Refusal::Fault {
                return Err(Fault);
            }
            Ok(SlotId::Zero)
        }
    }
}

/// Writes zeros to a slot's sector, and keeps them.
fn clear<D: Disk>(disk: &mut D, slot: SlotId) -> Result<(), Fault>
    requires { 9 ≤ (D.state disk.old).size }
    ensures any_moment { LeavesOnly (D.state disk.old) (D.state disk.new) (IsClearing slot (D.state disk.old).cells) }
    ensures ok { OnOk result (D.state disk.new ≡ after_flush true (after_write (slot_sector slot) (zero_sector ∷ []) (D.state disk.old))) }
    ensures same { IsSameDisk (D.state disk.old) (D.state disk.new) }
    ensures cause { FaultHasCause (is_err result) (D.state disk.old) (D.state disk.new) }
    ensures flushes { ((D.state disk.old).flushes ≤ (D.state disk.new).flushes) × ((D.state disk.new).flushes ≤ (D.state disk.old).flushes + 1) }
    ensures flushed { OnOk result ((D.state disk.new).flushes ≡ (D.state disk.old).flushes + 1) }
{
    disk.write(slot.sector(), &[0; 512])?;
    disk.flush()
}

/// Clears both slots, that of the disk's superblock last, each under a flush of its own.
fn clear_slots<D: Disk>(disk: &mut D) -> Result<(), Fault>
    requires { 9 ≤ (D.state disk.old).size }
    ensures any_moment { (last : Superblock) → IsTrue (D.state disk.old).is_honest → Leaves (λ image. Chooses image (Ok last)) (D.state disk.old).cells
        → LeavesOnly (D.state disk.old) (D.state disk.new) (λ image. IsOldPool last (D.state disk.old).cells image ⊎ IsNoPool image) }
    ensures blank { OnOk result (Leaves IsBlank (D.state disk.new).cells) }
    ensures same { IsSameDisk (D.state disk.old) (D.state disk.new) }
    ensures cause { FaultHasCause (is_err result) (D.state disk.old) (D.state disk.new) }
    ensures flushes { ((D.state disk.old).flushes ≤ (D.state disk.new).flushes) × ((D.state disk.new).flushes ≤ (D.state disk.old).flushes + 2) }
    ensures flushed { OnOk result ((D.state disk.new).flushes ≡ (D.state disk.old).flushes + 2) }
{
    let slot = chosen_slot(disk)?;
    clear(disk, slot.other())?;
    clear(disk, slot)
}

/// Writes the empty leaf of the device tree into the first tree block. It keeps nothing: that takes a flush.
fn write_leaf<D: Disk>(disk: &mut D, geometry: Geometry) -> Result<(), Fault>
    requires { sectors_of_image geometry ≤ (D.state disk.old).size }
    ensures any_moment { LeavesOutside (8 * fixed_part geometry) 8 (D.state disk.old) (D.state disk.new) }
    ensures written { OnOk result (block_at (seen (D.state disk.new).cells) (fixed_part geometry) ≡ node_bytes (fresh_leaf geometry)) }
    ensures outside { SameOutside (8 * fixed_part geometry) 8 (seen (D.state disk.old).cells) (seen (D.state disk.new).cells) }
    ensures same { IsSameDisk (D.state disk.old) (D.state disk.new) }
    ensures cause { FaultHasCause (is_err result) (D.state disk.old) (D.state disk.new) }
    ensures flushes { (D.state disk.new).flushes ≡ (D.state disk.old).flushes }
{
    let node = empty_leaf(geometry);
    let mut block = [0; BLOCK];
    write_node(&node, &mut block);
    disk.write(node.own.first_sector(), &block)
}

/// The device tree without devices.
fn empty_leaf(geometry: Geometry) -> Node
    ensures value { node_value result ≡ fresh_leaf geometry }
    ensures good { IsNode (node_value result) }
    ensures within { IsWithinLimits geometry }
{
    Node {
        kind: TreeKind::Device,
        level: 0,
        own: Mb::new(geometry.fixed_part()),
        entries: ArrayVec::new(),
    }
}

/// Writes what stands behind the superblocks: the counts into the first area, and the empty leaf; and keeps it.
fn write_contents<D: Disk>(disk: &mut D, tm: &mut Tm) -> Result<(), Fault>
    requires { sectors_of_image tm.old.geometry ≤ (D.state disk.old).size }
    ensures any_moment { LeavesOutside 16 (8 * (fixed_part tm.old.geometry + 1)) (D.state disk.old) (D.state disk.new) }
    ensures written { OnOk result (tm.old ≡ fresh_store tm.old.geometry → Leaves (HasFreshContents tm.old.geometry) (D.state disk.new).cells) }
    ensures unchanged { tm.new ≡ tm.old }
    ensures same { IsSameDisk (D.state disk.old) (D.state disk.new) }
    ensures cause { FaultHasCause (is_err result) (D.state disk.old) (D.state disk.new) }
    ensures flushes { ((D.state disk.old).flushes ≤ (D.state disk.new).flushes) × ((D.state disk.new).flushes ≤ (D.state disk.old).flushes + 1) }
    ensures flushed { OnOk result ((D.state disk.new).flushes ≡ (D.state disk.old).flushes + 1) }
{
    let geometry = tm.geometry();
    let marks = AreaMarks::all();
    tm.write_area(disk, Part::Metadata, SlotId::Zero, &marks.metadata)?;
    tm.write_area(disk, Part::Data, SlotId::Zero, &marks.data)?;
    write_leaf(disk, geometry)?;
    disk.flush()
}

/// The first superblock.
pub(crate) fn first_superblock(geometry: Geometry) -> Superblock
    ensures value { result ≡ fresh_super geometry }
    ensures within { IsWithinLimits geometry }
{
    Superblock {
        version: Version::OwnSizes,
        needs_check: false,
        sequence: 0,
        transaction_id: 0,
        geometry,
        root: Mb::new(geometry.fixed_part()),
        held_root: Mb::new(0),
    }
}

/// Writes the pool onto a disk whose slots are blank: first all but the superblock, which then makes it a pool.
fn lay_out<D: Disk>(disk: &mut D, tm: &mut Tm) -> Result<(), Fault>
    requires { sectors_of_image tm.old.geometry ≤ (D.state disk.old).size }
    ensures any_moment { tm.old ≡ fresh_store tm.old.geometry → Leaves IsBlank (D.state disk.old).cells
        → LeavesOnly (D.state disk.old) (D.state disk.new) (λ image. IsNoPool image ⊎ IsFreshOf tm.old.geometry image) }
    ensures fresh { OnOk result (tm.old ≡ fresh_store tm.old.geometry → Leaves IsBlank (D.state disk.old).cells → IsFreshOf tm.old.geometry (seen (D.state disk.new).cells)) }
    ensures settled { OnOk result (IsSettled (D.state disk.new).cells) }
    ensures unchanged { tm.new ≡ tm.old }
    ensures same { IsSameDisk (D.state disk.old) (D.state disk.new) }
    ensures cause { FaultHasCause (is_err result) (D.state disk.old) (D.state disk.new) }
    ensures flushes { ((D.state disk.old).flushes ≤ (D.state disk.new).flushes) × ((D.state disk.new).flushes ≤ (D.state disk.old).flushes + 2) }
    ensures flushed { OnOk result ((D.state disk.new).flushes ≡ (D.state disk.old).flushes + 2) }
{
    let superblock = first_superblock(tm.geometry());
    write_contents(disk, tm)?;
    store(disk, &superblock)
}
