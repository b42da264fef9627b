//! A mapping as a list in memory.

ghost use Rattle.std.specs.Prelude.{◌≡◌, ◌+◌, ◌*◌, ◌<◌, ◌≤◌, ◌^◌, ◌⊎◌, ℕ, List, [], Err, IfErr, IfOk, IfSome, IsSome, IsTrue, MatchOption, None, OnOk, Ok, Some, length, not, replicate, vec_capacity};
ghost use Rattle.tp_model.specs.Geometry.{Geometry, sectors_of_image};
ghost use Rattle.tp_counts.specs.StoreErrors.{is_fault};
ghost use Rattle.tp_model.specs.Disk.{DiskState, after_read, seen};
ghost use Rattle.tp_sharing.specs.Volumes.{BlockSlot, Volumes, device_of, mapped_of, slot_of, used, with_device, with_slot, without_device, without_slot};
ghost use Rattle.tp_mapping.specs.Mapping.{AreInside, AreTold, AreWithin, IsFilled, IsHighest, IsLeastFree, IsLonger, IsTold, NoneIsFree, Ran, SameTreeBlocks, free_places, from_block, size_for, slots_of};
ghost use Rattle.tp_list_mapping.specs.Standing.{StandsFor, counts_of, room_of};
ghost use Rattle.tp_list_mapping.specs.List.{IsRoomy, volumes};
ghost use Rattle.tp_mapping.specs.List.{is_used_elsewhere};
ghost use Rattle.tp_list_mapping.specs.One.{list_stands_for_one};
ghost use Rattle.tp_mapping.specs.Runs.{without_run};

use crate::device::{
    Device, add, copy_of, count_free, count_used, drop_slots, find_free, highest_of,
    is_used_elsewhere, mapped_of, mark, next_of, put_slot, remove, resize, size_of, slot_of,
    walk_of,
};
use std::alloc::{AllocError, Global};
use tp_counts::StoreError;
use tp_disk::Disk;
use tp_mapping::{Mapped, Mapping};
use tp_model::{DevId, Geometry, Pb, Slot, Slots, Vb};

/// A mapping as a list of devices, each with a list of its slots. It reads and writes no disk, and takes no memory after
/// it is made.
#[derive(Drop)]
pub struct ListMapping {
    geometry: Geometry,
    // The most virtual blocks that a device may have.
    most_blocks: u32,
    devices: Vec<Device>,
    // Devices that are not in use, each with room for so many slots and one more.
    spare: Vec<Device>,
    // Whether a slot had each data block at the last commit.
    kept: Vec<bool>,
}

/// A device that is not in use, with room for so many slots.
fn unused(alloc: Global, id: DevId, room: usize) -> Result<Device, AllocError>
    ensures { IfOk result (λ device. room ≤ vec_capacity device.slots) }
{
    Ok(Device {
        id,
        size: 0,
        slots: Vec::with_capacity(alloc, room)?,
    })
}

/// So many devices that are not in use, each with room for so many slots.
fn all_unused(alloc: Global, count: u32, room: usize) -> Result<Vec<Device>, AllocError>
    requires { count ≤ 65536 }
    ensures sized { IfOk result (λ devices. length devices.items ≡ count) }
    ensures capacity { IfOk result (λ devices. count ≤ vec_capacity devices) }
    ensures room { IfOk result (λ devices. IsRoomy room devices.items) }
{
    let mut devices = Vec::with_capacity(alloc, count as usize)?;
    for number in 0..count {
        devices.push(unused(alloc, DevId::new(number), room)?)?;
    }
    Ok(devices)
}

/// The size that a device with so many virtual blocks tells.
fn size_for(geometry: &Geometry, blocks: u32) -> u32
    ensures { result ≡ size_for geometry.now blocks }
{
    if blocks == geometry.virtual_blocks() {
        return 0;
    }
    blocks
}

impl ListMapping {
    /// A mapping without devices, for a pool of this geometry, with room for so many devices of so many virtual blocks at most. At the end of that room only
    /// `unmap_run` and `delete` are possible: each device that is there takes 8 of what `free_metadata` tells.
    pub fn new(
        alloc: Global,
        geometry: Geometry,
        most_devices: u32,
        most_blocks: u32,
    ) -> Result<ListMapping, AllocError>
        requires devices { most_devices ≤ 65536 }
        requires least { geometry.virtual_blocks ≤ most_blocks }
        requires most { most_blocks ≤ 2 ^ 24 }
        ensures stands { IfOk result (λ mapping. StandsFor mapping [] []) }
        ensures geometry { IfOk result (λ mapping. mapping.geometry ≡ geometry) }
        ensures blocks { IfOk result (λ mapping. mapping.most_blocks ≡ most_blocks) }
        ensures room { IfOk result (λ mapping. room_of (length mapping.spare.items) ≡ 8 * most_devices + 16) }
    {
        let _ = geometry.virtual_blocks();
        let room = most_blocks as usize + 1;
        let spare = all_unused(alloc, most_devices, room)?;
        Ok(ListMapping {
            geometry,
            most_blocks,
            devices: Vec::with_capacity(alloc, most_devices as usize)?,
            spare,
            kept: vec![in alloc; false; geometry.data_blocks() as usize]?,
        })
    }

    /// What is told of a virtual block with this data block.
    fn told(&self, device: DevId, block: Vb, place: Pb) -> Result<Option<Mapped>, StoreError>
        ensures value { IfOk result (λ answer. MatchOption answer ⊥ (λ at. (at.place ≡ place) × (at.is_shared ≡ is_used_elsewhere device block place (volumes self.now.devices.items)))) }
        ensures inside { IfOk result (λ answer. IfSome answer (λ at. at.place < self.now.geometry.data_blocks)) }
        ensures err { IfErr result (λ error. (error ≡ StoreError.Damaged) × (self.now.geometry.data_blocks ≤ place)) }
    {
        if place.number() >= self.geometry.data_blocks() {
            return Err(StoreError::Damaged);
        }
        Ok(Some(Mapped {
            place,
            is_shared: is_used_elsewhere(&self.devices, device, block, place),
        }))
    }

    /// The data block of a virtual block of a device, and whether another slot has it too.
    fn place_of(&self, device: DevId, block: Vb) -> Result<Option<Mapped>, StoreError>
        ensures told { IfOk result (λ answer. (now kept : Volumes) → StandsFor self.now now kept → IsTold device block now answer) }
        ensures inside { IfOk result (λ answer. IfSome answer (λ at. at.place < self.now.geometry.data_blocks)) }
        ensures damaged { result ≡ Err StoreError.Damaged → (now kept : Volumes) → StandsFor self.now now kept → ⊥ }
        ensures only { IfErr result (λ error. error ≡ StoreError.Damaged) }
    {
        match slot_of(&self.devices, device, block) {
            Some(place) => self.told(device, block, place),
            None => Ok(None),
        }
    }

    /// The same for each virtual block of a run.
    fn look_up_each(
        &self,
        device: DevId,
        first: Vb,
        places: &mut [Option<Mapped>],
    ) -> Result<(), StoreError>
        requires { first + length places.old ≤ 2 ^ 24 }
        ensures length { length places.new ≡ length places.old }
        ensures told { OnOk result ((now kept : Volumes) → StandsFor self.now now kept → AreTold device first now (length places.old) places.new) }
        ensures inside { OnOk result (AreInside self.now.geometry.data_blocks (length places.old) places.new) }
        ensures damaged { result ≡ Err StoreError.Damaged → (now kept : Volumes) → StandsFor self.now now kept → ⊥ }
        ensures only { IfErr result (λ error. error ≡ StoreError.Damaged) }
    {
        for i in 0..places.len() {
            let block = Vb::new(first.number() + i as u32);
            places[i] = self.place_of(device, block)?;
        }
        Ok(())
    }

    /// The room for devices, as metadata blocks.
    fn room(&self) -> u32
        ensures { result ≡ room_of (length self.now.spare.items) }
    {
        let spare = self.spare.len();
        if spare > 65536 {
            return 524304;
        }
        8 * spare as u32 + 16
    }
}

impl Mapping for ListMapping {
    ghost geometry = { λ m. m.geometry };

    ghost stands = { λ m disk now kept. StandsFor m now kept };

    ghost most_blocks = { λ m. m.most_blocks };

    ghost room = { λ m. room_of (length m.spare.items) };

    ghost counts = { λ m. counts_of m.geometry };

    ghost kept_counts = { λ m. counts_of m.geometry };

    ghost kept_data = { λ m. [] };

    ghost held_root = { λ m. 0 };

    fn look_up<D: Disk>(
        &self,
        _disk: &mut D,
        device: DevId,
        block: Vb,
    ) -> Result<Option<Mapped>, StoreError> {
        self.place_of(device, block)
    }

    fn look_up_run<D: Disk>(
        &self,
        _disk: &mut D,
        device: DevId,
        first: Vb,
        places: &mut [Option<Mapped>],
    ) -> Result<bool, StoreError> {
        self.look_up_each(device, first, places)?;
        Ok(mapped_of(&self.devices, device).is_some())
    }

    fn mapped<D: Disk>(&self, _disk: &mut D, device: DevId) -> Result<Option<u32>, StoreError> {
        let Some(count) = mapped_of(&self.devices, device) else {
            return Ok(None);
        };
        if count > 16777216 {
            return Err(StoreError::Damaged);
        }
        Ok(Some(count as u32))
    }

    fn size<D: Disk>(&self, _disk: &mut D, device: DevId) -> Result<Option<u32>, StoreError> {
        let Some(size) = size_of(&self.devices, device) else {
            return Ok(None);
        };
        let blocks = self.geometry.told_blocks(size as u64);
        if blocks > 16777216 {
            return Err(StoreError::Damaged);
        }
        Ok(Some(blocks as u32))
    }

    fn highest<D: Disk>(&self, _disk: &mut D, device: DevId) -> Result<Option<Vb>, StoreError> {
        Ok(highest_of(&self.devices, device))
    }

    fn walk<D: Disk>(
        &self,
        _disk: &mut D,
        device: DevId,
        from: Vb,
        slots: &mut Slots,
    ) -> Result<(), StoreError> {
        let _ = slots.len();
        walk_of(&self.devices, device, from, slots);
        Ok(())
    }

    fn devices<D: Disk>(&self, _disk: &mut D) -> Result<u32, StoreError> {
        let count = self.devices.len();
        if count > 65536 {
            return Err(StoreError::Damaged);
        }
        Ok(count as u32)
    }

    fn next_id<D: Disk>(&self, _disk: &mut D, from: DevId) -> Result<Option<DevId>, StoreError> {
        Ok(next_of(&self.devices, from))
    }

    fn used(&self) -> u64 {
        count_used(&self.devices, self.geometry.data_blocks())
    }

    fn free_metadata(&self) -> u32 {
        self.room()
    }

    fn free_data(&self) -> u64 {
        count_free(&self.devices, &self.kept, self.geometry.data_blocks())
    }

    fn map<D: Disk>(
        &mut self,
        _disk: &mut D,
        device: DevId,
        block: Vb,
    ) -> Result<Option<Pb>, StoreError> {
        let _ = block.number();
        let Some(place) = find_free(&self.devices, &self.kept, self.geometry.data_blocks()) else {
            return Ok(None);
        };
        put_slot(&mut self.devices, device, Slot::new(block, place))?;
        Ok(Some(place))
    }

    fn unmap_run<D: Disk>(
        &mut self,
        _disk: &mut D,
        device: DevId,
        first: Vb,
        count: u32,
    ) -> Result<(), StoreError> {
        drop_slots(&mut self.devices, device, first, count);
        Ok(())
    }

    fn create<D: Disk>(&mut self, _disk: &mut D, device: DevId) -> Result<(), StoreError> {
        let _ = device.number();
        let Some(mut spare) = self.spare.pop() else {
            return Err(StoreError::Damaged);
        };
        spare.id = device;
        spare.size = 0;
        spare.slots.clear();
        add(&mut self.devices, spare)
    }

    fn snapshot<D: Disk>(
        &mut self,
        _disk: &mut D,
        origin: DevId,
        device: DevId,
    ) -> Result<(), StoreError> {
        let _ = device.number();
        let Some(mut spare) = self.spare.pop() else {
            return Err(StoreError::Damaged);
        };
        copy_of(&self.devices, origin, device, &mut spare)?;
        add(&mut self.devices, spare)
    }

    fn grow<D: Disk>(
        &mut self,
        _disk: &mut D,
        device: DevId,
        blocks: u32,
    ) -> Result<(), StoreError> {
        let size = size_for(&self.geometry, blocks);
        resize(&mut self.devices, device, size)
    }

    fn delete<D: Disk>(&mut self, _disk: &mut D, device: DevId) -> Result<(), StoreError> {
        let Some(spare) = remove(&mut self.devices, device) else {
            return Err(StoreError::Damaged);
        };
        match self.spare.push(spare) {
            Ok(()) => Ok(()),
            Err(_) => Err(StoreError::Damaged),
        }
    }

    fn keep(&mut self) {
        if self.kept.len() > 1048576 {
            return;
        }
        mark(&self.devices, &mut self.kept);
    }

    ghost within = { λ m disk now kept s. s.within };

    ghost one = { λ m disk now kept next last s then. list_stands_for_one m now kept next last s then };

    ghost frame = { λ m old new now kept same s. s };
}
