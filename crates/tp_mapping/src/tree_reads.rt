//! What a mapping on trees tells of its volumes.

ghost use Rattle.std.specs.Prelude.{◌≡◌, ◌<◌, ◌≤◌, ◌^◌, ◌⊎◌, ◌∷◌, ◌++◌, ℕ, List, [], IfErr, IfOk, IfSome, IsTrue, None, OnOk, Some, length, map, take};
ghost use Rattle.std.specs.Option.{option_map};
ghost use Rattle.tp_model.specs.Geometry.{Geometry, sectors_of_image};
ghost use Rattle.tp_model.specs.Told.{IsToldSize, told_blocks};
ghost use Rattle.tp_counts.specs.LookUps.{IsLookedUp};
ghost use Rattle.tp_model.specs.Disk.{DiskState};
ghost use Rattle.tp_sharing.specs.Volumes.{Volumes, devices_in, mapped_of, size_of, used};
ghost use Rattle.tp_tm.specs.Tm.{free_metadata};
ghost use Rattle.tp_mapping.specs.Mapping.{IsFilled, IsHighest, IsLonger, IsTold, LooksUp, free_places, from_block, slots_of};
ghost use Rattle.tp_mapping.specs.Held.{HasThere, HasVolume};
ghost use Rattle.tp_mapping.specs.Trees.{StandForVolumes};
ghost use Rattle.tp_mapping.specs.Telling.{IsThere, NameBlocks, NamesBlocks, as_slot};

use crate::mapped::Mapped;
use crate::sizes::told_blocks;
use crate::trees::TreeMapping;
use crate::volume::{MOST_VOLUME, There, Volume, data_block_of, volume_at};
use arrayvec::ArrayVec;
use tp_btree::{count, last, lookup, walk};
use tp_counts::StoreError;
use tp_disk::Disk;
use tp_layout::{Entry, TreeKind};
use tp_model::{DevId, MOST_SLOTS, Mb, Slot, Slots, Vb};
use tp_tm::Tm;

/// The data block of a virtual block of a volume, and whether another slot has it too.
fn place_at<D: Disk>(
    tm: &Tm,
    disk: &mut D,
    there: There,
    block: Vb,
) -> Result<Option<Mapped>, StoreError>
    requires disk { sectors_of_image tm.now.geometry ≤ (D.state disk.old).size }
    requires inside { there.volume.root < tm.now.geometry.metadata_blocks }
    ensures looked { IsLookedUp (λ P. IsTrue (D.state disk.old).is_honest → (g : Geometry) (root : ℕ) (now : Volumes) (device : ℕ) → HasThere g tm.now (D.state disk.old) root now device there
        → P device now) (D.state disk.old) (D.state disk.new) result (λ answer device now. IsTold device block now answer) }
    ensures inside { IfOk result (λ answer. IfSome answer (λ at. at.place < tm.now.geometry.data_blocks)) }
{
    let key = block.number() as u64;
    let Some(found) = lookup(tm, disk, TreeKind::Mapping, there.volume.root, key)? else {
        return Ok(None);
    };
    let place = data_block_of(tm, found.entry.value)?;
    Ok(Some(Mapped {
        place,
        is_shared: there.is_shared | found.is_shared,
    }))
}

/// The virtual block of this number, or `Damaged` where there is none.
fn virtual_block_of(number: u64) -> Result<Vb, StoreError>
    ensures value { IfOk result (λ block. block ≡ number) }
    ensures err { IfErr result (λ error. (error ≡ StoreError.Damaged) × (2 ^ 24 ≤ number)) }
{
    if number >= MOST_VOLUME {
        return Err(StoreError::Damaged);
    }
    Ok(Vb::new(number as u32))
}

/// The virtual block of the last slot of a volume, if there is one.
fn last_block<D: Disk>(tm: &Tm, disk: &mut D, volume: Volume) -> Result<Option<Vb>, StoreError>
    requires disk { sectors_of_image tm.now.geometry ≤ (D.state disk.old).size }
    requires inside { volume.root < tm.now.geometry.metadata_blocks }
    ensures { IsLookedUp (λ P. IsTrue (D.state disk.old).is_honest → (g : Geometry) (root : ℕ) (now : Volumes) (device : ℕ) → HasVolume g tm.now (D.state disk.old) root [] now device volume
        → P device now) (D.state disk.old) (D.state disk.new) result (λ answer device now. IsHighest device now answer) }
{
    let Some(entry) = last(tm, disk, TreeKind::Mapping, volume.root)? else {
        return Ok(None);
    };
    Ok(Some(virtual_block_of(entry.key)?))
}

/// The slot that an entry of a volume's tree tells. `Damaged` where it names no blocks of the pool.
fn slot_in(tm: &Tm, entry: Entry) -> Result<Slot, StoreError>
    ensures value { IfOk result (λ slot. slot ≡ as_slot entry) }
    ensures err { IfErr result (λ error. (error ≡ StoreError.Damaged) × (NamesBlocks tm.now.geometry.data_blocks entry → ⊥)) }
{
    let block = virtual_block_of(entry.key)?;
    let place = data_block_of(tm, entry.value)?;
    Ok(Slot::new(block, place))
}

/// Adds a slot, where there is room.
fn add_slot(slots: &mut Slots, slot: Slot)
    ensures value { slots.new.items ≡ take 252 (slots.old.items ++ (slot ∷ [])) }
    ensures longer { IsLonger slots.old.items slots.new.items }
{
    let len = slots.len();
    if len < MOST_SLOTS {
        slots.push(slot);
    }
}

/// Adds the slots that entries of a volume's tree tell, until there is no room.
fn add_slots(tm: &Tm, entries: &[Entry], slots: &mut Slots) -> Result<(), StoreError>
    requires { length slots.old.items ≤ 252 }
    ensures value { OnOk result (slots.new.items ≡ take 252 (slots.old.items ++ map as_slot entries.now)) }
    ensures longer { IsLonger slots.old.items slots.new.items }
    ensures err { IfErr result (λ error. (error ≡ StoreError.Damaged) × (NameBlocks tm.now.geometry.data_blocks entries.now → ⊥)) }
{
    for i in 0..entries.len() {
        let slot = slot_in(tm, entries[i])?;
        add_slot(slots, slot);
    }
    Ok(())
}

/// Adds the slots of a volume with virtual blocks from `from` on, until there is no room.
fn walk_from<D: Disk>(
    tm: &Tm,
    disk: &mut D,
    volume: Volume,
    from: Vb,
    slots: &mut Slots,
) -> Result<(), StoreError>
    requires disk { sectors_of_image tm.now.geometry ≤ (D.state disk.old).size }
    requires inside { volume.root < tm.now.geometry.metadata_blocks }
    ensures looked { IsLookedUp (λ P. IsTrue (D.state disk.old).is_honest → (g : Geometry) (root : ℕ) (now : Volumes) (device : ℕ) → HasVolume g tm.now (D.state disk.old) root [] now device volume
        → P device now) (D.state disk.old) (D.state disk.new) result (λ done device now. IsFilled (from_block from (slots_of device now)) slots.old.items slots.new.items) }
    ensures longer { IsLonger slots.old.items slots.new.items }
{
    let first = from.number() as u64;
    let _ = slots.len();
    let mut entries = ArrayVec::new();
    walk(
        tm,
        disk,
        TreeKind::Mapping,
        volume.root,
        first,
        &mut entries,
    )?;
    add_slots(tm, &entries, slots)
}

// Each reading call of `Mapping`, with its clauses.
impl TreeMapping {
    /// What there is of a device. `None` where there is no such device.
    pub(crate) fn volume_of<D: Disk>(
        &self,
        disk: &mut D,
        device: DevId,
    ) -> Result<Option<There>, StoreError>
        requires disk { sectors_of_image self.now.tm.geometry ≤ (D.state disk.old).size }
        ensures looked { LooksUp (StandForVolumes self.now) (D.state disk.old) (D.state disk.new) result (λ answer now. IsThere self.now (D.state disk.new) now device answer) }
        ensures inside { IfOk result (λ answer. IfSome answer (λ there. there.volume.root < self.now.tm.geometry.metadata_blocks)) }
        ensures told { IfOk result (λ answer. IfSome answer (λ there. IsToldSize self.now.tm.geometry there.volume.size)) }
    {
        let root = self.device_root()?;
        volume_at(&self.tm, disk, root, device)
    }

    pub(crate) fn look_up_block<D: Disk>(
        &self,
        disk: &mut D,
        device: DevId,
        block: Vb,
    ) -> Result<Option<Mapped>, StoreError>
        requires disk { sectors_of_image self.now.tm.geometry ≤ (D.state disk.old).size }
        ensures looked { LooksUp (StandForVolumes self.now) (D.state disk.old) (D.state disk.new) result (λ answer now. IsTold device block now answer) }
        ensures inside { IfOk result (λ answer. IfSome answer (λ at. at.place < self.now.tm.geometry.data_blocks)) }
    {
        match self.volume_of(disk, device)? {
            Some(there) => place_at(&self.tm, disk, there, block),
            None => Ok(None),
        }
    }

    pub(crate) fn mapped_blocks<D: Disk>(
        &self,
        disk: &mut D,
        device: DevId,
    ) -> Result<Option<u32>, StoreError>
        requires disk { sectors_of_image self.now.tm.geometry ≤ (D.state disk.old).size }
        ensures { LooksUp (StandForVolumes self.now) (D.state disk.old) (D.state disk.new) result (λ answer now. answer ≡ mapped_of device now) }
    {
        match self.volume_of(disk, device)? {
            Some(there) => Ok(Some(there.volume.mapped)),
            None => Ok(None),
        }
    }

    pub(crate) fn size_of_device<D: Disk>(
        &self,
        disk: &mut D,
        device: DevId,
    ) -> Result<Option<u32>, StoreError>
        requires disk { sectors_of_image self.now.tm.geometry ≤ (D.state disk.old).size }
        ensures sized { LooksUp (StandForVolumes self.now) (D.state disk.old) (D.state disk.new) result (λ answer now. answer ≡ option_map (told_blocks self.now.tm.geometry) (size_of device now)) }
        ensures few { IfOk result (λ answer. IfSome answer (λ blocks. blocks ≤ 2 ^ 24)) }
    {
        let geometry = self.tm.geometry();
        let _ = geometry.virtual_blocks();
        match self.volume_of(disk, device)? {
            Some(there) => Ok(Some(told_blocks(&geometry, there.volume.size))),
            None => Ok(None),
        }
    }

    pub(crate) fn used_blocks(&self) -> u64
        ensures { (disk : DiskState) (now kept : Volumes) → StandForVolumes self.now disk now kept → result ≡ used now }
    {
        let _ = self.tm.geometry();
        self.tm.used_data()
    }

    pub(crate) fn free_metadata_blocks(&self) -> u32
        ensures { result ≡ free_metadata self.now.tm }
    {
        let _ = self.tm.geometry().metadata_blocks();
        self.tm.free_metadata() as u32
    }

    pub(crate) fn free_data_blocks(&self) -> u64
        ensures { (disk : DiskState) (now kept : Volumes) → StandForVolumes self.now disk now kept → result ≡ free_places self.now.tm.geometry now kept }
    {
        let _ = self.tm.geometry();
        self.tm.free_data()
    }

    pub(crate) fn count_devices<D: Disk>(&self, disk: &mut D) -> Result<u32, StoreError>
        requires disk { sectors_of_image self.now.tm.geometry ≤ (D.state disk.old).size }
        ensures { LooksUp (StandForVolumes self.now) (D.state disk.old) (D.state disk.new) result (λ answer now. answer ≡ devices_in now) }
    {
        let root = self.device_root()?;
        let number = count(&self.tm, disk, TreeKind::Device, root)?;
        Ok(number as u32)
    }

    pub(crate) fn highest_block<D: Disk>(
        &self,
        disk: &mut D,
        device: DevId,
    ) -> Result<Option<Vb>, StoreError>
        requires disk { sectors_of_image self.now.tm.geometry ≤ (D.state disk.old).size }
        ensures { LooksUp (StandForVolumes self.now) (D.state disk.old) (D.state disk.new) result (λ answer now. IsHighest device now answer) }
    {
        match self.volume_of(disk, device)? {
            Some(there) => last_block(&self.tm, disk, there.volume),
            None => Ok(None),
        }
    }

    pub(crate) fn walk_slots<D: Disk>(
        &self,
        disk: &mut D,
        device: DevId,
        from: Vb,
        slots: &mut Slots,
    ) -> Result<(), StoreError>
        requires disk { sectors_of_image self.now.tm.geometry ≤ (D.state disk.old).size }
        ensures looked { LooksUp (StandForVolumes self.now) (D.state disk.old) (D.state disk.new) result (λ done now. IsFilled (from_block from (slots_of device now)) slots.old.items slots.new.items) }
        ensures longer { IsLonger slots.old.items slots.new.items }
    {
        let _ = slots.len();
        match self.volume_of(disk, device)? {
            Some(there) => walk_from(&self.tm, disk, there.volume, from, slots),
            None => Ok(()),
        }
    }
}
