//! The marks of the data blocks that a device loses.

ghost use Rattle.std.specs.Prelude.{◌≡◌, ◌⊎◌, ◌<◌, ◌≤◌, ◌^◌, List, IfErr, IfOk};
ghost use Rattle.tp_model.specs.Geometry.{sectors_of_image};
ghost use Rattle.tp_sharing.specs.Volumes.{BlockSlot};
ghost use Rattle.tp_mapping.specs.Mapping.{LooksUp, from_block, slots_of};
ghost use Rattle.tp_mapping.specs.Trees.{StandForVolumes};
ghost use Rattle.tp_meta.specs.Marking.{AreCutAt, AreOrdered, IsPiece};
ghost use Rattle.tp_meta.specs.Metadata.{marked_all};

use crate::marks::Marks;
use tp_counts::StoreError;
use tp_disk::Disk;
use tp_mapping::{Mapping, TreeMapping};
use tp_model::{DevId, MOST_SLOTS, Slot, Slots, Vb};

/// The most blocks of a volume: their numbers are below this one.
const MOST_VOLUME: u32 = 16_777_216;

/// Marks the data blocks of slots.
fn mark_slots(marks: &mut Marks, slots: &[Slot])
    ensures { marks.new ≡ marked_all slots.now marks.old }
{
    for i in 0..slots.len() {
        marks.put(slots[i].place());
    }
}

/// The number behind the last virtual block of a piece, where more may follow; else that behind all virtual blocks.
/// `Damaged` where the piece does not go on.
fn behind(piece: &[Slot], from: u32) -> Result<u32, StoreError>
    requires { from < 2 ^ 24 }
    ensures cut { IfOk result (λ next. (slots : List BlockSlot) → AreOrdered slots → IsPiece from slots piece.now → AreCutAt from next slots piece.now) }
    ensures further { IfOk result (λ next. from < next) }
    ensures err { IfErr result (λ error. (error ≡ StoreError.Damaged) × ((slots : List BlockSlot) → AreOrdered slots → IsPiece from slots piece.now → ⊥)) }
{
    let len = piece.len();
    if len < MOST_SLOTS {
        return Ok(MOST_VOLUME);
    }
    let next = piece[MOST_SLOTS - 1].block().number() + 1;
    if next <= from {
        return Err(StoreError::Damaged);
    }
    Ok(next)
}

/// Marks the data blocks of a device's slots from a virtual block on, as many as one walk gives. It gives the virtual block
/// that the next piece begins with.
fn mark_piece<D: Disk>(
    mapping: &TreeMapping,
    disk: &mut D,
    device: DevId,
    from: u32,
    marks: &mut Marks,
) -> Result<u32, StoreError>
    requires disk { sectors_of_image mapping.now.tm.geometry ≤ (D.state disk.old).size }
    requires from { from < 2 ^ 24 }
    ensures looked { LooksUp (StandForVolumes mapping.now) (D.state disk.old) (D.state disk.new) result
        (λ next now. marked_all (from_block from (slots_of device now)) marks.old ≡ marked_all (from_block next (slots_of device now)) marks.new) }
    ensures further { IfOk result (λ next. from < next) }
{
    let mut slots = Slots::new();
    mapping.walk(disk, device, Vb::new(from), &mut slots)?;
    mark_slots(marks, &slots);
    behind(&slots, from)
}

/// Marks the data blocks of a device's slots, which are read in pieces.
pub(crate) fn mark_device<D: Disk>(
    mapping: &TreeMapping,
    disk: &mut D,
    device: DevId,
    marks: &mut Marks,
) -> Result<(), StoreError>
    requires disk { sectors_of_image mapping.now.tm.geometry ≤ (D.state disk.old).size }
    ensures { LooksUp (StandForVolumes mapping.now) (D.state disk.old) (D.state disk.new) result (λ done now. marks.new ≡ marked_all (slots_of device now) marks.old) }
{
    let mut from = 0;
    while from < MOST_VOLUME {
        from = mark_piece(mapping, disk, device, from, marks)?;
    }
    Ok(())
}
