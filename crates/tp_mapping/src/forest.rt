//! Changes of the device tree.

ghost use Rattle.std.specs.Prelude.{◌≡◌, ◌+◌, ◌<◌, ◌≤◌, ◌^◌, ◌⊎◌, ℕ, List, [], Err, IfErr, IfOk, IsSome, IsTrue, None, OnOk, Some, length};
ghost use Rattle.tp_model.specs.Geometry.{Geometry, sectors_of_image};
ghost use Rattle.tp_counts.specs.StoreErrors.{is_fault};
ghost use Rattle.tp_layout.specs.Node.{FitsEntry, is_long};
ghost use Rattle.tp_layout.specs.declared.kind.TreeKind.TheVariants.{Device};
ghost use Rattle.tp_sharing.specs.Volumes.{BlockSlot, Volumes, device_of, devices_in, size_of, with_device, without_device};
ghost use Rattle.tp_tm.specs.Tm.{free_metadata};
ghost use Rattle.tp_btree.specs.Inserts.{Ran};
ghost use Rattle.tp_mapping.specs.Held.{ChangesBelow, HoldBeside, HoldTrees, HoldVolume, HoldsOld, entry_of, in_use};

use crate::volume::{Volume, new_volume, volume_in};
use tp_btree::{block_of, drop_tree, insert, remove, replace};
use tp_counts::StoreError;
use tp_disk::Disk;
use tp_layout::{Entry, TreeKind};
use tp_model::{DevId, Mb};
use tp_tm::Tm;

/// The entry of a device.
fn device_entry(device: DevId, volume: Volume) -> Entry
    ensures value { result ≡ entry_of device volume }
    ensures fits { FitsEntry (is_long Device 0) result }
    ensures below { device < 2 ^ 24 }
{
    Entry {
        key: device.number() as u64,
        value: volume.root.number() as u64,
        mapped: volume.mapped as u64,
        size: volume.size as u64,
    }
}

/// Puts a device with a new id into the device tree below a root. The reference to the volume's root is given to its entry.
pub(crate) fn put_new<D: Disk>(
    tm: &mut Tm,
    disk: &mut D,
    root: Mb,
    device: DevId,
    volume: Volume,
) -> Result<Mb, StoreError>
    requires disk { sectors_of_image tm.old.geometry ≤ (D.state disk.old).size }
    requires inside { root < tm.old.geometry.metadata_blocks }
    requires room { 7 ≤ free_metadata tm.old }
    ensures put { IfOk result (λ top. IsTrue (D.state disk.old).is_honest → (g : Geometry) (slots : List BlockSlot) (now : Volumes) → HoldVolume g tm.old (D.state disk.old) root volume slots now
        → device_of device now ≡ None → devices_in now < 65536
        → HoldTrees g tm.new (D.state disk.new) top [] (with_device (record { id = device; size = volume.size; slots = slots }) now)) }
    ensures damaged { result ≡ Err StoreError.Damaged → IsTrue (D.state disk.old).is_honest → (g : Geometry) (slots : List BlockSlot) (now : Volumes) → HoldVolume g tm.old (D.state disk.old) root volume slots now
        → device_of device now ≡ None → devices_in now < 65536 → ⊥ }
    ensures used { IfOk result (λ top. tm.old.held_root ≡ 0 → IsTrue (D.state disk.old).is_honest → (g : Geometry) (slots : List BlockSlot) (now : Volumes) → HoldVolume g tm.old (D.state disk.old) root volume slots now
        → device_of device now ≡ None → devices_in now < 65536 → in_use tm.new ≤ in_use tm.old + 3) }
    ensures ran { Ran 7 (is_fault result) tm.old tm.new (D.state disk.old) (D.state disk.new) }
{
    insert(
        tm,
        disk,
        TreeKind::Device,
        root,
        device_entry(device, volume),
    )
}

/// Gives up a volume's tree that an entry of the device tree named.
fn drop_volume<D: Disk>(tm: &mut Tm, disk: &mut D, root: u64) -> Result<(), StoreError>
    requires disk { sectors_of_image tm.old.geometry ≤ (D.state disk.old).size }
    ensures dropped { OnOk result (IsTrue (D.state disk.old).is_honest → (g : Geometry) (top : ℕ) (now : Volumes) → HoldsOld g tm.old (D.state disk.old) top root now
        → HoldTrees g tm.new (D.state disk.new) top [] now) }
    ensures damaged { result ≡ Err StoreError.Damaged → IsTrue (D.state disk.old).is_honest → (g : Geometry) (top : ℕ) (now : Volumes) → HoldsOld g tm.old (D.state disk.old) top root now → ⊥ }
    ensures used { OnOk result (IsTrue (D.state disk.old).is_honest → (g : Geometry) (top : ℕ) (now : Volumes) → HoldsOld g tm.old (D.state disk.old) top root now → in_use tm.new ≤ in_use tm.old) }
    ensures ran { Ran 0 (is_fault result) tm.old tm.new (D.state disk.old) (D.state disk.new) }
{
    let block = block_of(tm, root)?;
    drop_tree(tm, disk, TreeKind::Mapping, block)
}

/// A volume that was taken out of its device's entry, and the root of the device tree, where the entry has a volume
/// without slots.
#[derive(Clone, Copy)]
pub(crate) struct Taken {
    pub(crate) root: Mb,
    pub(crate) volume: Volume,
}

/// Takes a device's volume out of its entry, to change it where it stands: the reference to the volume's root is the
/// entry's own, so that what is fresh in the tree is named once. A volume without slots stands in for it.
pub(crate) fn take_volume<D: Disk>(
    tm: &mut Tm,
    disk: &mut D,
    root: Mb,
    device: DevId,
) -> Result<Taken, StoreError>
    requires disk { sectors_of_image tm.old.geometry ≤ (D.state disk.old).size }
    requires inside { root < tm.old.geometry.metadata_blocks }
    requires room { 4 ≤ free_metadata tm.old }
    ensures taken { IfOk result (λ taken. IsTrue (D.state disk.old).is_honest → (g : Geometry) (more : List ℕ) (now : Volumes) → length more ≤ 8
        → HoldTrees g tm.old (D.state disk.old) root more now → (slots : List BlockSlot) → device_of device now ≡ Some slots
        → HoldBeside g tm.new (D.state disk.new) taken.root more taken.volume slots (with_device (record { id = device; size = 0; slots = [] }) now)) }
    ensures told { IfOk result (λ taken. IsTrue (D.state disk.old).is_honest → (g : Geometry) (more : List ℕ) (now : Volumes) → length more ≤ 8
        → HoldTrees g tm.old (D.state disk.old) root more now → IsSome (device_of device now) → size_of device now ≡ Some taken.volume.size) }
    ensures inside { IfOk result (λ taken. taken.root < tm.old.geometry.metadata_blocks) }
    ensures volume { IfOk result (λ taken. taken.volume.root < tm.old.geometry.metadata_blocks) }
    ensures few { IfOk result (λ taken. taken.volume.mapped ≤ 2 ^ 24) }
    ensures damaged { result ≡ Err StoreError.Damaged → IsTrue (D.state disk.old).is_honest → (g : Geometry) (more : List ℕ) (now : Volumes) → length more ≤ 8
        → HoldTrees g tm.old (D.state disk.old) root more now → IsSome (device_of device now) → ⊥ }
    ensures used { IfOk result (λ taken. tm.old.held_root ≡ 0 → IsTrue (D.state disk.old).is_honest → (g : Geometry) (now : Volumes) → HoldTrees g tm.old (D.state disk.old) root [] now
        → IsSome (device_of device now) → in_use tm.new ≤ in_use tm.old + 1) }
    ensures ran { Ran 4 (is_fault result) tm.old tm.new (D.state disk.old) (D.state disk.new) }
{
    let without_slots = new_volume(tm, disk)?;
    let _ = tm.geometry();
    let entry = device_entry(device, without_slots);
    let done = replace(tm, disk, TreeKind::Device, root, entry)?;
    let volume = volume_in(tm, done.was)?;
    Ok(Taken {
        root: done.root,
        volume,
    })
}

/// Puts another volume in the place of a device's, whose tree is given up. The reference to the volume's root is given to
/// the device's entry.
pub(crate) fn put_over<D: Disk>(
    tm: &mut Tm,
    disk: &mut D,
    root: Mb,
    device: DevId,
    volume: Volume,
) -> Result<Mb, StoreError>
    requires disk { sectors_of_image tm.old.geometry ≤ (D.state disk.old).size }
    requires inside { root < tm.old.geometry.metadata_blocks }
    requires room { 3 ≤ free_metadata tm.old }
    ensures put { IfOk result (λ top. IsTrue (D.state disk.old).is_honest → (g : Geometry) (slots : List BlockSlot) (now : Volumes) → HoldVolume g tm.old (D.state disk.old) root volume slots now
        → IsSome (device_of device now) → HoldTrees g tm.new (D.state disk.new) top [] (with_device (record { id = device; size = volume.size; slots = slots }) now)) }
    ensures damaged { result ≡ Err StoreError.Damaged → IsTrue (D.state disk.old).is_honest → (g : Geometry) (slots : List BlockSlot) (now : Volumes) → HoldVolume g tm.old (D.state disk.old) root volume slots now
        → IsSome (device_of device now) → ⊥ }
    ensures used { IfOk result (λ top. tm.old.held_root ≡ 0 → IsTrue (D.state disk.old).is_honest → (g : Geometry) (slots : List BlockSlot) (now : Volumes) → HoldVolume g tm.old (D.state disk.old) root volume slots now
        → IsSome (device_of device now) → in_use tm.new ≤ in_use tm.old) }
    ensures ran { Ran 3 (is_fault result) tm.old tm.new (D.state disk.old) (D.state disk.new) }
{
    let entry = device_entry(device, volume);
    let done = replace(tm, disk, TreeKind::Device, root, entry)?;
    drop_volume(tm, disk, done.was.value)?;
    Ok(done.root)
}

/// Takes a device out of the device tree below a root, and gives its volume's tree up.
pub(crate) fn take_out<D: Disk>(
    tm: &mut Tm,
    disk: &mut D,
    root: Mb,
    device: DevId,
) -> Result<Mb, StoreError>
    requires disk { sectors_of_image tm.old.geometry ≤ (D.state disk.old).size }
    requires inside { root < tm.old.geometry.metadata_blocks }
    requires room { 5 ≤ free_metadata tm.old }
    ensures changed { ChangesBelow 5 tm.old tm.new (D.state disk.old) (D.state disk.new) result
        (λ P. IsTrue (D.state disk.old).is_honest → (g : Geometry) (now : Volumes) → HoldTrees g tm.old (D.state disk.old) root [] now → IsSome (device_of device now) → P g now)
        (λ top g now. HoldTrees g tm.new (D.state disk.new) top [] (without_device device now)) }
    ensures used { IfOk result (λ top. tm.old.held_root ≡ 0 → IsTrue (D.state disk.old).is_honest → (g : Geometry) (now : Volumes) → HoldTrees g tm.old (D.state disk.old) root [] now
        → IsSome (device_of device now) → in_use tm.new ≤ in_use tm.old) }
{
    let key = device.number() as u64;
    let done = remove(tm, disk, TreeKind::Device, root, key)?;
    drop_volume(tm, disk, done.was.value)?;
    Ok(done.root)
}
