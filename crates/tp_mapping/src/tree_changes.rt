//! Changes of the volumes of a mapping on trees.

ghost use Rattle.std.specs.Prelude.{◌≡◌, ◌+◌, ◌<◌, ◌≤◌, ◌⊎◌, ◌∷◌, ℕ, List, [], Err, IfErr, IfOk, IfSome, IsSome, IsTrue, MatchOption, None, Ok, Some, length};
ghost use Rattle.tp_model.specs.Geometry.{Geometry, sectors_of_image};
ghost use Rattle.tp_model.specs.Told.{IsToldSize, told_blocks};
ghost use Rattle.tp_counts.specs.StoreErrors.{is_fault};
ghost use Rattle.tp_model.specs.Disk.{DiskState};
ghost use Rattle.tp_sharing.specs.Volumes.{BlockSlot, Volumes, device_of, devices_in, resized, size_of, with_device, with_place, with_slot, without_device};
ghost use Rattle.tp_tm.specs.Tm.{free_metadata, used_metadata};
ghost use Rattle.tp_btree.specs.Inserts.{Ran};
ghost use Rattle.tp_mapping.specs.Held.{ChangesBelow, HoldTrees, HoldVolume, in_use};
ghost use Rattle.tp_mapping.specs.Mapping as told;
ghost use Rattle.tp_mapping.specs.Trees.{ChangesTrees, StandForVolumes};

use crate::forest::{Taken, put_new, put_over, take_out, take_volume};
use crate::sizes::size_for;
use crate::trees::TreeMapping;
use crate::volume::{Volume, known_at, new_volume, same_volume, with_size, with_slot};
use tp_counts::StoreError;
use tp_disk::Disk;
use tp_model::{DevId, Mb, Pb, Vb};
use tp_tm::Tm;

/// The tree of a device once more.
fn named_again<D: Disk>(
    tm: &mut Tm,
    disk: &mut D,
    root: Mb,
    device: DevId,
) -> Result<Volume, StoreError>
    requires disk { sectors_of_image tm.old.geometry ≤ (D.state disk.old).size }
    requires inside { root < tm.old.geometry.metadata_blocks }
    requires room { 1 ≤ free_metadata tm.old }
    ensures held { IfOk result (λ volume. IsTrue (D.state disk.old).is_honest → (g : Geometry) (now : Volumes)
        → HoldTrees g tm.old (D.state disk.old) root [] now
        → (slots : List BlockSlot) → device_of device now ≡ Some slots → HoldVolume g tm.new (D.state disk.new) root volume slots now) }
    ensures told { IfOk result (λ volume. IsTrue (D.state disk.old).is_honest → (g : Geometry) (now : Volumes)
        → HoldTrees g tm.old (D.state disk.old) root [] now → size_of device now ≡ Some volume.size) }
    ensures damaged { result ≡ Err StoreError.Damaged → IsTrue (D.state disk.old).is_honest → (g : Geometry) (now : Volumes)
        → HoldTrees g tm.old (D.state disk.old) root [] now
        → IsSome (device_of device now) → ⊥ }
    ensures used { IfOk result (λ volume. IsTrue (D.state disk.old).is_honest → (g : Geometry) (now : Volumes)
        → HoldTrees g tm.old (D.state disk.old) root [] now → in_use tm.new ≤ in_use tm.old) }
    ensures ran { Ran 1 (is_fault result) tm.old tm.new (D.state disk.old) (D.state disk.new) }
{
    let volume = known_at(tm, disk, root, device)?;
    let same = Volume {
        root: volume.root,
        mapped: volume.mapped,
        size: volume.size,
    };
    same_volume(tm, same)?;
    Ok(volume)
}

/// The volume of a device, taken out of its entry, of which a virtual block got a data block, to which a reference is
/// held.
fn take_with<D: Disk>(
    tm: &mut Tm,
    disk: &mut D,
    root: Mb,
    device: DevId,
    block: Vb,
    place: Pb,
) -> Result<Taken, StoreError>
    requires disk { sectors_of_image tm.old.geometry ≤ (D.state disk.old).size }
    requires inside { root < tm.old.geometry.metadata_blocks }
    requires room { 13 ≤ free_metadata tm.old }
    ensures changed { IfOk result (λ taken. IsTrue (D.state disk.old).is_honest → (g : Geometry) (now : Volumes)
        → HoldTrees g tm.old (D.state disk.old) root ((g.metadata_blocks + place) ∷ []) now
        → (slots : List BlockSlot) → device_of device now ≡ Some slots → ((size : ℕ) → size_of device now ≡ Some size → block < told_blocks g size)
        → HoldVolume g tm.new (D.state disk.new) taken.root taken.volume (with_place (record { block = block; place = place }) slots) (with_device (record { id = device; size = 0; slots = [] }) now)) }
    ensures told { IfOk result (λ taken. IsTrue (D.state disk.old).is_honest → (g : Geometry) (now : Volumes)
        → HoldTrees g tm.old (D.state disk.old) root ((g.metadata_blocks + place) ∷ []) now → IsSome (device_of device now) → size_of device now ≡ Some taken.volume.size) }
    ensures inside { IfOk result (λ taken. taken.root < tm.old.geometry.metadata_blocks) }
    ensures damaged { result ≡ Err StoreError.Damaged → IsTrue (D.state disk.old).is_honest → (g : Geometry) (now : Volumes)
        → HoldTrees g tm.old (D.state disk.old) root ((g.metadata_blocks + place) ∷ []) now
        → IsSome (device_of device now) → ((size : ℕ) → size_of device now ≡ Some size → block < told_blocks g size) → ⊥ }
    ensures ran { Ran 13 (is_fault result) tm.old tm.new (D.state disk.old) (D.state disk.new) }
{
    let taken = take_volume(tm, disk, root, device)?;
    let volume = with_slot(tm, disk, taken.volume, block, place)?;
    Ok(Taken {
        root: taken.root,
        volume,
    })
}

/// Adds a device without slots to the device tree below a root.
fn create_below<D: Disk>(
    tm: &mut Tm,
    disk: &mut D,
    root: Mb,
    device: DevId,
) -> Result<Mb, StoreError>
    requires disk { sectors_of_image tm.old.geometry ≤ (D.state disk.old).size }
    requires inside { root < tm.old.geometry.metadata_blocks }
    requires room { 8 ≤ free_metadata tm.old }
    ensures { ChangesBelow 8 tm.old tm.new (D.state disk.old) (D.state disk.new) result
        (λ P. IsTrue (D.state disk.old).is_honest → (g : Geometry) (now : Volumes) → HoldTrees g tm.old (D.state disk.old) root [] now → device_of device now ≡ None
        → devices_in now < 65536 → P g now)
        (λ top g now. HoldTrees g tm.new (D.state disk.new) top [] (with_device (record { id = device; size = 0; slots = [] }) now)) }
{
    let volume = new_volume(tm, disk)?;
    put_new(tm, disk, root, device, volume)
}

/// Adds a device with the slots of another one to the device tree below a root.
fn snapshot_below<D: Disk>(
    tm: &mut Tm,
    disk: &mut D,
    root: Mb,
    origin: DevId,
    device: DevId,
) -> Result<Mb, StoreError>
    requires disk { sectors_of_image tm.old.geometry ≤ (D.state disk.old).size }
    requires inside { root < tm.old.geometry.metadata_blocks }
    requires room { 8 ≤ free_metadata tm.old }
    ensures changed { ChangesBelow 8 tm.old tm.new (D.state disk.old) (D.state disk.new) result
        (λ P. IsTrue (D.state disk.old).is_honest → (g : Geometry) (now : Volumes) → HoldTrees g tm.old (D.state disk.old) root [] now → device_of device now ≡ None
        → devices_in now < 65536 → IsSome (device_of origin now) → P g now)
        (λ top g now. (slots : List BlockSlot) (size : ℕ) → device_of origin now ≡ Some slots → size_of origin now ≡ Some size
        → HoldTrees g tm.new (D.state disk.new) top [] (with_device (record { id = device; size = size; slots = slots }) now)) }
    ensures used { IfOk result (λ top. tm.old.held_root ≡ 0 → IsTrue (D.state disk.old).is_honest → (g : Geometry) (now : Volumes)
        → HoldTrees g tm.old (D.state disk.old) root [] now
        → device_of device now ≡ None → devices_in now < 65536 → IsSome (device_of origin now) → in_use tm.new ≤ in_use tm.old + 3) }
{
    let volume = named_again(tm, disk, root, origin)?;
    put_new(tm, disk, root, device, volume)
}

/// Has the record of a device of the device tree below a root tell another size, no less than it has.
fn grow_below<D: Disk>(
    tm: &mut Tm,
    disk: &mut D,
    root: Mb,
    device: DevId,
    size: u32,
) -> Result<Mb, StoreError>
    requires disk { sectors_of_image tm.old.geometry ≤ (D.state disk.old).size }
    requires inside { root < tm.old.geometry.metadata_blocks }
    requires room { 7 ≤ free_metadata tm.old }
    ensures changed { ChangesBelow 7 tm.old tm.new (D.state disk.old) (D.state disk.new) result
        (λ P. IsTrue (D.state disk.old).is_honest → (g : Geometry) (now : Volumes) → HoldTrees g tm.old (D.state disk.old) root [] now → IsSome (device_of device now)
        → IsToldSize g size → ((old : ℕ) → size_of device now ≡ Some old → told_blocks g old ≤ told_blocks g size) → P g now)
        (λ top g now. HoldTrees g tm.new (D.state disk.new) top [] (resized device size now)) }
    ensures used { IfOk result (λ top. tm.old.held_root ≡ 0 → IsTrue (D.state disk.old).is_honest → (g : Geometry) (now : Volumes)
        → HoldTrees g tm.old (D.state disk.old) root [] now → IsSome (device_of device now)
        → IsToldSize g size → ((old : ℕ) → size_of device now ≡ Some old → told_blocks g old ≤ told_blocks g size) → in_use tm.new ≤ in_use tm.old + 1) }
{
    let taken = take_volume(tm, disk, root, device)?;
    let volume = with_size(taken.volume, size);
    put_over(tm, disk, taken.root, device, volume)
}

/// Gives a virtual block of a device of the device tree below a root a data block, to which a reference is held.
fn map_below<D: Disk>(
    tm: &mut Tm,
    disk: &mut D,
    root: Mb,
    device: DevId,
    block: Vb,
    place: Pb,
) -> Result<Mb, StoreError>
    requires disk { sectors_of_image tm.old.geometry ≤ (D.state disk.old).size }
    requires inside { root < tm.old.geometry.metadata_blocks }
    requires room { 16 ≤ free_metadata tm.old }
    ensures { ChangesBelow 16 tm.old tm.new (D.state disk.old) (D.state disk.new) result
        (λ P. IsTrue (D.state disk.old).is_honest → (g : Geometry) (now : Volumes) → HoldTrees g tm.old (D.state disk.old) root ((g.metadata_blocks + place) ∷ []) now
        → IsSome (device_of device now) → ((size : ℕ) → size_of device now ≡ Some size → block < told_blocks g size) → P g now)
        (λ top g now. HoldTrees g tm.new (D.state disk.new) top [] (with_slot device (record { block = block; place = place }) now)) }
{
    let taken = take_with(tm, disk, root, device, block, place)?;
    put_over(tm, disk, taken.root, device, taken.volume)
}

// Each changing call of `Mapping`, with its clauses.
impl TreeMapping {
    pub(crate) fn create_device<D: Disk>(
        &mut self,
        disk: &mut D,
        device: DevId,
    ) -> Result<(), StoreError>
        requires disk { sectors_of_image self.old.tm.geometry ≤ (D.state disk.old).size }
        requires room { 24 ≤ free_metadata self.old.tm }
        ensures changed { ChangesTrees 8 self.old self.new (D.state disk.old) (D.state disk.new) result
            (λ P. IsTrue (D.state disk.old).is_honest → (now kept : Volumes) → StandForVolumes self.old (D.state disk.old) now kept → device_of device now ≡ None
            → devices_in now < 65536 → P now kept)
            (λ done now kept. StandForVolumes self.new (D.state disk.new) (with_device (record { id = device; size = 0; slots = [] }) now) kept) }
        ensures used { used_metadata self.new.tm ≤ used_metadata self.old.tm + 8 }
    {
        let root = self.device_root()?;
        let top = create_below(&mut self.tm, disk, root, device)?;
        self.root = top;
        Ok(())
    }

    pub(crate) fn snapshot_device<D: Disk>(
        &mut self,
        disk: &mut D,
        origin: DevId,
        device: DevId,
    ) -> Result<(), StoreError>
        requires disk { sectors_of_image self.old.tm.geometry ≤ (D.state disk.old).size }
        requires room { 24 ≤ free_metadata self.old.tm }
        ensures { ChangesTrees 8 self.old self.new (D.state disk.old) (D.state disk.new) result
            (λ P. IsTrue (D.state disk.old).is_honest → (now kept : Volumes) → StandForVolumes self.old (D.state disk.old) now kept → device_of device now ≡ None
            → devices_in now < 65536 → IsSome (device_of origin now) → P now kept)
            (λ done now kept. ((slots : List BlockSlot) (size : ℕ) → device_of origin now ≡ Some slots → size_of origin now ≡ Some size
            → StandForVolumes self.new (D.state disk.new) (with_device (record { id = device; size = size; slots = slots }) now) kept)
            × (self.old.tm.held_root ≡ 0 → used_metadata self.new.tm ≤ used_metadata self.old.tm + 3)) }
    {
        let _ = self.tm.geometry();
        let root = self.device_root()?;
        let top = snapshot_below(&mut self.tm, disk, root, origin, device)?;
        self.root = top;
        Ok(())
    }

    pub(crate) fn grow_device<D: Disk>(
        &mut self,
        disk: &mut D,
        device: DevId,
        blocks: u32,
    ) -> Result<(), StoreError>
        requires disk { sectors_of_image self.old.tm.geometry ≤ (D.state disk.old).size }
        requires room { 24 ≤ free_metadata self.old.tm }
        ensures { ChangesTrees 8 self.old self.new (D.state disk.old) (D.state disk.new) result
            (λ P. IsTrue (D.state disk.old).is_honest → (now kept : Volumes) → StandForVolumes self.old (D.state disk.old) now kept → IsSome (device_of device now)
            → IsToldSize self.old.tm.geometry (told.size_for self.old.tm.geometry blocks)
            → ((size : ℕ) → size_of device now ≡ Some size → told_blocks self.old.tm.geometry size ≤ blocks) → P now kept)
            (λ done now kept. StandForVolumes self.new (D.state disk.new) (resized device (told.size_for self.old.tm.geometry blocks) now) kept
            × (self.old.tm.held_root ≡ 0 → used_metadata self.new.tm ≤ used_metadata self.old.tm + 1)) }
    {
        let geometry = self.tm.geometry();
        let size = size_for(&geometry, blocks);
        let root = self.device_root()?;
        let top = grow_below(&mut self.tm, disk, root, device, size)?;
        self.root = top;
        Ok(())
    }

    pub(crate) fn delete_device<D: Disk>(
        &mut self,
        disk: &mut D,
        device: DevId,
    ) -> Result<(), StoreError>
        requires disk { sectors_of_image self.old.tm.geometry ≤ (D.state disk.old).size }
        requires room { 16 ≤ free_metadata self.old.tm }
        ensures { ChangesTrees 16 self.old self.new (D.state disk.old) (D.state disk.new) result
            (λ P. IsTrue (D.state disk.old).is_honest → (now kept : Volumes) → StandForVolumes self.old (D.state disk.old) now kept → IsSome (device_of device now) → P now kept)
            (λ done now kept. StandForVolumes self.new (D.state disk.new) (without_device device now) kept
            × (self.old.tm.held_root ≡ 0 → used_metadata self.new.tm ≤ used_metadata self.old.tm)) }
    {
        let _ = self.tm.geometry();
        let root = self.device_root()?;
        let top = take_out(&mut self.tm, disk, root, device)?;
        self.root = top;
        Ok(())
    }

    pub(crate) fn map_block<D: Disk>(
        &mut self,
        disk: &mut D,
        device: DevId,
        block: Vb,
    ) -> Result<Option<Pb>, StoreError>
        requires disk { sectors_of_image self.old.tm.geometry ≤ (D.state disk.old).size }
        requires room { 16 ≤ free_metadata self.old.tm }
        ensures changed { ChangesTrees 16 self.old self.new (D.state disk.old) (D.state disk.new) result
            (λ P. IsTrue (D.state disk.old).is_honest → (now kept : Volumes) → StandForVolumes self.old (D.state disk.old) now kept → IsSome (device_of device now)
            → ((size : ℕ) → size_of device now ≡ Some size → block < told_blocks self.old.tm.geometry size) → P now kept)
            (λ answer now kept. MatchOption answer (told.NoneIsFree self.old.tm.geometry now kept) (λ place. told.IsLeastFree self.old.tm.geometry now kept place
            × StandForVolumes self.new (D.state disk.new) (with_slot device (record { block = block; place = place }) now) kept)) }
        ensures inside { IfOk result (λ answer. IfSome answer (λ place. place < self.old.tm.geometry.data_blocks)) }
        ensures none { result ≡ Ok None → (self.new ≡ self.old) × (D.state disk.new ≡ D.state disk.old) }
        ensures used { used_metadata self.new.tm ≤ used_metadata self.old.tm + 16 }
    {
        let _ = self.tm.geometry();
        let root = self.device_root()?;
        let Some(place) = self.tm.fresh_data() else {
            return Ok(None);
        };
        let top = map_below(&mut self.tm, disk, root, device, block, place)?;
        self.root = top;
        Ok(Some(place))
    }

    pub(crate) fn keep_volumes(&mut self)
        ensures kept { (disk : DiskState) (now kept : Volumes) → StandForVolumes self.old disk now kept → StandForVolumes self.new disk now now }
        ensures geometry { self.new.tm.geometry ≡ self.old.tm.geometry }
        ensures counts { (self.new.tm.metadata_now ≡ self.old.tm.metadata_now) × (self.new.tm.metadata_kept ≡ self.old.tm.metadata_now) }
        ensures held { self.new.tm.held_root ≡ self.old.tm.held_root }
        ensures room { free_metadata self.old.tm ≤ free_metadata self.new.tm }
    {
        let _ = self.tm.geometry();
        self.tm.keep();
    }
}
