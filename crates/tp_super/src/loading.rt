//! Which superblock a disk's two slots give.
ghost use Rattle.std.specs.Prelude.{◌≡◌, ◌≢◌, ◌⊎◌, not, is_ok, IfOk, IfErr, IsTrue, Err};
ghost use Rattle.tp_model.specs.Refusals.{is_fault};
ghost use Rattle.tp_model.specs.Disk.{FaultHasCause, after_read, seen};
ghost use Rattle.tp_image.specs.Slots.{Chooses, SlotIs, choice_of, later_of};

use tp_disk::{Disk, Fault};
use tp_layout::{Slot, SlotId, Superblock, read_super};
use tp_model::Refusal;

/// The superblock that the disk's slots give. It writes nothing.
///
/// It refuses, in this order: with `Fault` where a read failed, with `BadVersion` where a slot has another version,
/// with `Damaged` where a slot breaks a rule, with `NotAPool` where no slot has the magic, and with `Damaged` where
/// two good superblocks have two geometries or neither follows the other. Of two that are left it is the later one.
pub fn load<D: Disk>(disk: &mut D) -> Result<Superblock, Refusal>
    ensures found { result ≢ Err Refusal.Fault → IsTrue (D.state disk.old).is_honest → Chooses (seen (D.state disk.old).cells) result }
    // On a disk that is not honest too.
    ensures only { IfErr result (λ refusal. (refusal ≡ Refusal.Fault) ⊎ (refusal ≡ Refusal.BadVersion) ⊎ (refusal ≡ Refusal.Damaged) ⊎ (refusal ≡ Refusal.NotAPool)) }
    ensures state { D.state disk.new ≡ after_read (not (is_fault result)) (D.state disk.old) }
    ensures cause { FaultHasCause (is_fault result) (D.state disk.old) (D.state disk.new) }
{
    let Ok(first) = slot_on(disk, SlotId::Zero) else {
        return Err(Refusal::Fault);
    };
    let Ok(second) = slot_on(disk, SlotId::One) else {
        return Err(Refusal::Fault);
    };
    choice_of(first, second)
}

/// What stands in a slot: nothing of a pool's where its sector is not on the disk.
fn slot_on<D: Disk>(disk: &mut D, slot: SlotId) -> Result<Slot, Fault>
    ensures found { IfOk result (λ what. IsTrue (D.state disk.old).is_honest → SlotIs (seen (D.state disk.old).cells) slot what) }
    ensures state { D.state disk.new ≡ after_read (is_ok result) (D.state disk.old) }
{
    if slot.sector() >= disk.sectors() {
        return Ok(Slot::Foreign);
    }
    let mut sector = [0; 512];
    disk.read(slot.sector(), &mut sector)?;
    Ok(read_super(&sector, slot))
}

/// The superblock that two slots give.
fn choice_of(first: Slot, second: Slot) -> Result<Superblock, Refusal>
    ensures { result ≡ choice_of first second }
{
    match (first, second) {
        (Slot::Other, _) | (_, Slot::Other) => Err(Refusal::BadVersion),
        (Slot::Bad, _) | (_, Slot::Bad) => Err(Refusal::Damaged),
        (Slot::Foreign, Slot::Foreign) => Err(Refusal::NotAPool),
        (Slot::Good(only), Slot::Foreign) | (Slot::Foreign, Slot::Good(only)) => Ok(only),
        (Slot::Good(first), Slot::Good(second)) => later_of(first, second),
    }
}

/// Of two good superblocks, the one whose sequence comes right after the other's.
fn later_of(one: Superblock, other: Superblock) -> Result<Superblock, Refusal>
    ensures { result ≡ later_of one other }
{
    if one.geometry != other.geometry {
        return Err(Refusal::Damaged);
    }
    if one.sequence == other.sequence.wrapping_add(1) {
        Ok(one)
    } else if other.sequence == one.sequence.wrapping_add(1) {
        Ok(other)
    } else {
        Err(Refusal::Damaged)
    }
}
