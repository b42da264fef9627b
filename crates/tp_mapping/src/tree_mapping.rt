//! The mapping on trees keeps the contract of a mapping.
//!
//! An impl is one block, so each call that reads or changes trees is a method of `TreeMapping` in the module of what it does.

ghost use Rattle.std.specs.Prelude.{◌^◌};
ghost use Rattle.tp_tm.specs.Tm.{free_metadata};
ghost use Rattle.tp_mapping.specs.Trees.{StandForVolumes};
ghost use Rattle.tp_mapping.specs.Framing.{frame_stands};
ghost use Rattle.tp_mapping.specs.One.{trees_stand_for_one};

use crate::mapped::Mapped;
use crate::mapping::Mapping;
use crate::runs::clear;
use crate::tree_runs::places_at;
use crate::trees::TreeMapping;
use tp_counts::StoreError;
use tp_disk::Disk;
use tp_model::{DevId, Pb, Slots, Vb};

impl Mapping for TreeMapping {
    ghost geometry = { λ m. m.tm.geometry };

    ghost stands = { λ m disk now kept. StandForVolumes m disk now kept };

    ghost most_blocks = { λ m. 2 ^ 24 };

    ghost room = { λ m. free_metadata m.tm };

    ghost counts = { λ m. m.tm.metadata_now };

    ghost kept_counts = { λ m. m.tm.metadata_kept };

    ghost kept_data = { λ m. m.tm.data_kept };

    ghost held_root = { λ m. m.tm.held_root };

    fn look_up<D: Disk>(
        &self,
        disk: &mut D,
        device: DevId,
        block: Vb,
    ) -> Result<Option<Mapped>, StoreError> {
        self.look_up_block(disk, device, block)
    }

    fn look_up_run<D: Disk>(
        &self,
        disk: &mut D,
        device: DevId,
        first: Vb,
        places: &mut [Option<Mapped>],
    ) -> Result<bool, StoreError> {
        match self.volume_of(disk, device)? {
            Some(there) => {
                places_at(&self.tm, disk, there, first, places)?;
                Ok(true)
            }
            None => {
                clear(places);
                Ok(false)
            }
        }
    }

    fn mapped<D: Disk>(&self, disk: &mut D, device: DevId) -> Result<Option<u32>, StoreError> {
        self.mapped_blocks(disk, device)
    }

    fn size<D: Disk>(&self, disk: &mut D, device: DevId) -> Result<Option<u32>, StoreError> {
        self.size_of_device(disk, device)
    }

    fn highest<D: Disk>(&self, disk: &mut D, device: DevId) -> Result<Option<Vb>, StoreError> {
        self.highest_block(disk, device)
    }

    fn walk<D: Disk>(
        &self,
        disk: &mut D,
        device: DevId,
        from: Vb,
        slots: &mut Slots,
    ) -> Result<(), StoreError> {
        self.walk_slots(disk, device, from, slots)
    }

    fn devices<D: Disk>(&self, disk: &mut D) -> Result<u32, StoreError> {
        self.count_devices(disk)
    }

    fn next_id<D: Disk>(&self, disk: &mut D, from: DevId) -> Result<Option<DevId>, StoreError> {
        self.next_device(disk, from)
    }

    fn used(&self) -> u64 {
        self.used_blocks()
    }

    fn free_metadata(&self) -> u32 {
        self.free_metadata_blocks()
    }

    fn free_data(&self) -> u64 {
        self.free_data_blocks()
    }

    fn map<D: Disk>(
        &mut self,
        disk: &mut D,
        device: DevId,
        block: Vb,
    ) -> Result<Option<Pb>, StoreError> {
        self.map_block(disk, device, block)
    }

    fn unmap_run<D: Disk>(
        &mut self,
        disk: &mut D,
        device: DevId,
        first: Vb,
        count: u32,
    ) -> Result<(), StoreError> {
        self.unmap_blocks(disk, device, first, count)
    }

    fn create<D: Disk>(&mut self, disk: &mut D, device: DevId) -> Result<(), StoreError> {
        self.create_device(disk, device)
    }

    fn snapshot<D: Disk>(
        &mut self,
        disk: &mut D,
        origin: DevId,
        device: DevId,
    ) -> Result<(), StoreError> {
        self.snapshot_device(disk, origin, device)
    }

    fn grow<D: Disk>(
        &mut self,
        disk: &mut D,
        device: DevId,
        blocks: u32,
    ) -> Result<(), StoreError> {
        self.grow_device(disk, device, blocks)
    }

    fn delete<D: Disk>(&mut self, disk: &mut D, device: DevId) -> Result<(), StoreError> {
        self.delete_device(disk, device)
    }

    fn keep(&mut self) {
        self.keep_volumes();
    }

    ghost within = { λ m disk now kept s. s.within };

    ghost one = { λ m disk now kept next last s then. trees_stand_for_one m disk now kept next last s then };

    ghost frame = { λ m old new now kept same s. frame_stands m old new now kept same s };
}
