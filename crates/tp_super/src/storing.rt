//! The storing of the next superblock.
ghost use Rattle.std.specs.Prelude.{◌≡◌, ◌≤◌, ◌+◌, ◌∷◌, [], true, is_err, Result, Ok, OnOk};
ghost use Rattle.tp_model.specs.declared.refusal.Refusal.{Refusal};
ghost use Rattle.tp_model.specs.Disk.{FaultHasCause, IsSameDisk, after_flush, after_write, seen};
ghost use Rattle.tp_model.specs.DiskStops.{Leaves, LeavesOnly, LeavesOutside};
ghost use Rattle.tp_layout.specs.Super.{IsGoodSuper, super_bytes};
ghost use Rattle.tp_layout.specs.declared.superblock.Superblock.{Superblock};
ghost use Rattle.tp_layout.specs.declared.superblock.SlotId.{SlotId};
ghost use Rattle.tp_image.specs.Slots.{Chooses};
ghost use Rattle.tp_super.specs.Store.{IsNext, IsStoring, super_sector};

use tp_disk::{Disk, Fault};
use tp_layout::{Superblock, write_super};

/// Writes a superblock into its slot. A flush behind it keeps it.
///
/// Where of `next`, and of what a stop may leave before, all holds that `store` wants: a stop at any moment of the call leaves what there
/// was, or `next`; and after an `Ok` reads give slots that give `next`.
pub fn put<D: Disk>(disk: &mut D, next: &Superblock) -> Result<(), Fault>
    requires { 9 ≤ (D.state disk.old).size }
    ensures any_moment { (slot : SlotId) (one : Result Superblock Refusal) → IsGoodSuper slot next.now → IsNext one next.now
        → Leaves (λ image. Chooses image one) (D.state disk.old).cells
        → LeavesOnly (D.state disk.old) (D.state disk.new) (IsStoring one next.now (D.state disk.old).cells) }
    ensures chosen { OnOk result ((slot : SlotId) (one : Result Superblock Refusal) → IsGoodSuper slot next.now → IsNext one next.now
        → Leaves (λ image. Chooses image one) (D.state disk.old).cells → Chooses (seen (D.state disk.new).cells) (Ok next.now)) }
    // Of every superblock, whatever stands in the slots.
    ensures outside { LeavesOutside (super_sector next.now) 1 (D.state disk.old) (D.state disk.new) }
    ensures ok { OnOk result (D.state disk.new ≡ after_write (super_sector next.now) (super_bytes next.now ∷ []) (D.state disk.old)) }
    ensures same { IsSameDisk (D.state disk.old) (D.state disk.new) }
    ensures cause { FaultHasCause (is_err result) (D.state disk.old) (D.state disk.new) }
    ensures flushes { (D.state disk.new).flushes ≡ (D.state disk.old).flushes }
{
    let mut sector = [0; 512];
    write_super(next, &mut sector);
    disk.write(next.slot().sector(), &sector)
}

/// Writes a superblock into its slot, and keeps it.
///
/// Where `next` is good and, in each image that a stop may leave before, the slots give one and the same superblock,
/// which `next` follows, or say that there is no pool, and then the sequence of `next` is 0: a stop at any moment of
/// the call leaves what there was, or `next`; and after an `Ok` it leaves `next`.
pub fn store<D: Disk>(disk: &mut D, next: &Superblock) -> Result<(), Fault>
    requires { 9 ≤ (D.state disk.old).size }
    ensures any_moment { (slot : SlotId) (one : Result Superblock Refusal) → IsGoodSuper slot next.now → IsNext one next.now
        → Leaves (λ image. Chooses image one) (D.state disk.old).cells
        → LeavesOnly (D.state disk.old) (D.state disk.new) (IsStoring one next.now (D.state disk.old).cells) }
    ensures stored { OnOk result ((slot : SlotId) (one : Result Superblock Refusal) → IsGoodSuper slot next.now → IsNext one next.now
        → Leaves (λ image. Chooses image one) (D.state disk.old).cells
        → Leaves (λ image. Chooses image (Ok next.now)) (D.state disk.new).cells) }
    // Of every superblock, whatever stands in the slots.
    ensures outside { LeavesOutside (super_sector next.now) 1 (D.state disk.old) (D.state disk.new) }
    ensures ok { OnOk result (D.state disk.new ≡ after_flush true (after_write (super_sector next.now) (super_bytes next.now ∷ []) (D.state disk.old))) }
    ensures same { IsSameDisk (D.state disk.old) (D.state disk.new) }
    ensures cause { FaultHasCause (is_err result) (D.state disk.old) (D.state disk.new) }
    ensures flushes { ((D.state disk.old).flushes ≤ (D.state disk.new).flushes) × ((D.state disk.new).flushes ≤ (D.state disk.old).flushes + 1) }
    ensures flushed { OnOk result ((D.state disk.new).flushes ≡ (D.state disk.old).flushes + 1) }
{
    put(disk, next)?;
    disk.flush()
}
