//! A run of virtual blocks of a device loses its data blocks.

ghost use Rattle.std.specs.Prelude.{◌≡◌, ◌+◌, ◌*◌, ◌<◌, ◌≤◌, ◌^◌, ◌⊎◌, ℕ, List, [], Err, IfErr, IfOk, IsSome, IsTrue, Some};
ghost use Rattle.tp_model.specs.Geometry.{Geometry, sectors_of_image};
ghost use Rattle.tp_counts.specs.StoreErrors.{is_fault};
ghost use Rattle.tp_model.specs.Disk.{DiskState};
ghost use Rattle.tp_sharing.specs.Volumes.{BlockSlot, Volumes, device_of, size_of, with_device, without_place};
ghost use Rattle.tp_tm.specs.Tm.{free_metadata, used_metadata};
ghost use Rattle.tp_btree.specs.Inserts.{Ran};
ghost use Rattle.tp_mapping.specs.Held.{ChangesBelow, HoldTrees, HoldVolume};
ghost use Rattle.tp_mapping.specs.Runs.{without_places, without_run};
ghost use Rattle.tp_mapping.specs.Trees.{ChangesTrees, StandForVolumes};

use crate::forest::{Taken, put_over, take_volume};
use crate::trees::TreeMapping;
use crate::volume::{Volume, without_slot};
use tp_btree::lookup;
use tp_counts::StoreError;
use tp_disk::Disk;
use tp_layout::TreeKind;
use tp_model::{DevId, Mb, Vb};
use tp_tm::Tm;

/// Takes the data block of a virtual block of a volume that stands beside the device tree, where it has one.
fn free_slot<D: Disk>(
    tm: &mut Tm,
    disk: &mut D,
    volume: Volume,
    block: Vb,
) -> Result<Volume, StoreError>
    requires disk { sectors_of_image tm.old.geometry ≤ (D.state disk.old).size }
    requires inside { volume.root < tm.old.geometry.metadata_blocks }
    requires few { volume.mapped ≤ 2 ^ 24 }
    requires room { 7 ≤ free_metadata tm.old }
    ensures changed { IfOk result (λ changed. IsTrue (D.state disk.old).is_honest → (g : Geometry) (root : ℕ) (slots : List BlockSlot) (now : Volumes)
        → HoldVolume g tm.old (D.state disk.old) root volume slots now
        → HoldVolume g tm.new (D.state disk.new) root changed (without_place block slots) now) }
    ensures inside { IfOk result (λ changed. changed.root < tm.old.geometry.metadata_blocks) }
    ensures mapped { IfOk result (λ changed. changed.mapped ≤ 2 ^ 24) }
    ensures damaged { result ≡ Err StoreError.Damaged → IsTrue (D.state disk.old).is_honest → (g : Geometry) (root : ℕ) (slots : List BlockSlot) (now : Volumes)
        → HoldVolume g tm.old (D.state disk.old) root volume slots now → ⊥ }
    ensures size { IfOk result (λ changed. changed.size ≡ volume.size) }
    ensures ran { Ran 7 (is_fault result) tm.old tm.new (D.state disk.old) (D.state disk.new) }
{
    let key = block.number() as u64;
    match lookup(tm, disk, TreeKind::Mapping, volume.root, key)? {
        Some(_) => without_slot(tm, disk, volume, block),
        None => Ok(volume),
    }
}

/// The same for each virtual block of a run. It takes 7 metadata blocks for each at most.
fn free_slots<D: Disk>(
    tm: &mut Tm,
    disk: &mut D,
    volume: Volume,
    first: Vb,
    count: u32,
) -> Result<Volume, StoreError>
    requires disk { sectors_of_image tm.old.geometry ≤ (D.state disk.old).size }
    requires inside { volume.root < tm.old.geometry.metadata_blocks }
    requires few { volume.mapped ≤ 2 ^ 24 }
    requires run { first + count ≤ 2 ^ 24 }
    requires room { 7 * count ≤ free_metadata tm.old }
    ensures changed { IfOk result (λ changed. IsTrue (D.state disk.old).is_honest → (g : Geometry) (root : ℕ) (slots : List BlockSlot) (now : Volumes)
        → HoldVolume g tm.old (D.state disk.old) root volume slots now
        → HoldVolume g tm.new (D.state disk.new) root changed (without_places first count slots) now) }
    ensures damaged { result ≡ Err StoreError.Damaged → IsTrue (D.state disk.old).is_honest → (g : Geometry) (root : ℕ) (slots : List BlockSlot) (now : Volumes)
        → HoldVolume g tm.old (D.state disk.old) root volume slots now → ⊥ }
    ensures size { IfOk result (λ changed. changed.size ≡ volume.size) }
    ensures ran { Ran (7 * count) (is_fault result) tm.old tm.new (D.state disk.old) (D.state disk.new) }
{
    let mut left = volume;
    let mut done = 0;
    while done < count {
        left = free_slot(tm, disk, left, Vb::new(first.number() + done))?;
        done += 1;
    }
    Ok(left)
}

/// The volume of a device, taken out of its entry, of which a run of virtual blocks lost its data blocks.
fn take_without_run<D: Disk>(
    tm: &mut Tm,
    disk: &mut D,
    root: Mb,
    device: DevId,
    first: Vb,
    count: u32,
) -> Result<Taken, StoreError>
    requires disk { sectors_of_image tm.old.geometry ≤ (D.state disk.old).size }
    requires inside { root < tm.old.geometry.metadata_blocks }
    requires run { first + count ≤ 2 ^ 24 }
    requires room { 7 * count + 4 ≤ free_metadata tm.old }
    ensures changed { IfOk result (λ taken. IsTrue (D.state disk.old).is_honest → (g : Geometry) (now : Volumes)
        → HoldTrees g tm.old (D.state disk.old) root [] now
        → (slots : List BlockSlot) → device_of device now ≡ Some slots
        → HoldVolume g tm.new (D.state disk.new) taken.root taken.volume (without_places first count slots) (with_device (record { id = device; size = 0; slots = [] }) now)) }
    ensures told { IfOk result (λ taken. IsTrue (D.state disk.old).is_honest → (g : Geometry) (now : Volumes)
        → HoldTrees g tm.old (D.state disk.old) root [] now → IsSome (device_of device now) → size_of device now ≡ Some taken.volume.size) }
    ensures inside { IfOk result (λ taken. taken.root < tm.old.geometry.metadata_blocks) }
    ensures damaged { result ≡ Err StoreError.Damaged → IsTrue (D.state disk.old).is_honest → (g : Geometry) (now : Volumes)
        → HoldTrees g tm.old (D.state disk.old) root [] now
        → IsSome (device_of device now) → ⊥ }
    ensures ran { Ran (7 * count + 4) (is_fault result) tm.old tm.new (D.state disk.old) (D.state disk.new) }
{
    let taken = take_volume(tm, disk, root, device)?;
    let volume = free_slots(tm, disk, taken.volume, first, count)?;
    Ok(Taken {
        root: taken.root,
        volume,
    })
}

/// Takes the data blocks of a run of virtual blocks of a device of the device tree below a root. The device's entry is
/// changed twice, however long the run is.
fn unmap_run_below<D: Disk>(
    tm: &mut Tm,
    disk: &mut D,
    root: Mb,
    device: DevId,
    first: Vb,
    count: u32,
) -> Result<Mb, StoreError>
    requires disk { sectors_of_image tm.old.geometry ≤ (D.state disk.old).size }
    requires inside { root < tm.old.geometry.metadata_blocks }
    requires run { first + count ≤ 2 ^ 24 }
    requires room { 7 * count + 7 ≤ free_metadata tm.old }
    ensures { ChangesBelow (7 * count + 7) tm.old tm.new (D.state disk.old) (D.state disk.new) result
        (λ P. IsTrue (D.state disk.old).is_honest → (g : Geometry) (now : Volumes) → HoldTrees g tm.old (D.state disk.old) root [] now → IsSome (device_of device now) → P g now)
        (λ top g now. HoldTrees g tm.new (D.state disk.new) top [] (without_run device first count now)) }
{
    let taken = take_without_run(tm, disk, root, device, first, count)?;
    put_over(tm, disk, taken.root, device, taken.volume)
}

// The call of `Mapping`, with its clauses.
impl TreeMapping {
    pub(crate) fn unmap_blocks<D: Disk>(
        &mut self,
        disk: &mut D,
        device: DevId,
        first: Vb,
        count: u32,
    ) -> Result<(), StoreError>
        requires disk { sectors_of_image self.old.tm.geometry ≤ (D.state disk.old).size }
        requires run { first + count ≤ 2 ^ 24 }
        requires room { 7 * count + 7 ≤ free_metadata self.old.tm }
        ensures changed { ChangesTrees (7 * count + 7) self.old self.new (D.state disk.old) (D.state disk.new) result
            (λ P. IsTrue (D.state disk.old).is_honest → (now kept : Volumes) → StandForVolumes self.old (D.state disk.old) now kept → IsSome (device_of device now) → P now kept)
            (λ done now kept. StandForVolumes self.new (D.state disk.new) (without_run device first count now) kept) }
        ensures used { used_metadata self.new.tm ≤ used_metadata self.old.tm + (7 * count + 7) }
    {
        let root = self.device_root()?;
        let top = unmap_run_below(&mut self.tm, disk, root, device, first, count)?;
        self.root = top;
        Ok(())
    }
}
