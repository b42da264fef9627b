//! The trees of a pool, with what is in memory beside them, keep the contract of a pool's metadata.
ghost use Rattle.std.specs.Prelude.{◌≡◌};
ghost use Rattle.tp_tm.specs.Tm.{IsSized};
ghost use Rattle.tp_meta.specs.Framing.{frame_stands, stands_bounded, stands_counted, stands_left, stands_one, stands_trees, stands_within};
ghost use Rattle.tp_meta.specs.Midway.{IsMidway, TellsFor, tells_so};
ghost use Rattle.tp_meta.specs.Standing.{StandsFor, changed_of, marks_of, next_of, room_of};

use crate::committing::{begin_store, commit_store, go_on_store, write_back};
use crate::devices::{one_fewer, one_more};
use crate::ending::end_store;
use crate::homes::homes_in;
use crate::losing::{has_some, lose, lose_each};
use crate::marking::mark_device;
use crate::metadata::{Home, Metadata};
use crate::whole::Meta;
use tp_counts::StoreError;
use tp_disk::{Disk, Fault};
use tp_layout::{Superblock, Version};
use tp_mapping::{MOST_RUN, Mapping};
use tp_model::{DevId, Geometry, Pb, Slots, Vb};

impl Metadata for Meta {
    ghost geometry = { λ m. m.mapping.tm.geometry };

    ghost stands = { λ m disk now kept. StandsFor m disk now kept };

    ghost marks = { λ m. marks_of m };

    ghost room = { λ m. room_of m };

    ghost changed = { λ m. changed_of m };

    ghost tells = { λ m disk now kept. TellsFor m disk now kept };

    ghost midway = { λ m is_named before disk. IsMidway m is_named before disk };

    fn geometry(&self) -> Geometry {
        self.mapping.store().geometry()
    }

    fn transaction_id(&self) -> u64 {
        self.transaction_id
    }

    fn needs_check(&self) -> bool {
        self.needs_check
    }

    fn held_root(&self) -> u32 {
        self.mapping.store().held_root().number()
    }

    fn used_metadata(&self) -> u32 {
        let _ = self.mapping.store().geometry().metadata_blocks();
        self.mapping.store().used_metadata() as u32
    }

    fn free_metadata(&self) -> u32 {
        self.mapping.free_metadata()
    }

    fn used_data(&self) -> u64 {
        self.mapping.used()
    }

    fn free_data(&self) -> u64 {
        self.mapping.free_data()
    }

    fn look_up_run<D: Disk>(
        &self,
        disk: &mut D,
        device: DevId,
        first: Vb,
        homes: &mut [Option<Home>],
    ) -> Result<bool, StoreError> {
        let mut places = [None; MOST_RUN];
        let places = &mut places[..homes.len()];
        let is_there = self.mapping.look_up_run(disk, device, first, places)?;
        homes_in(&self.marks, places, homes);
        Ok(is_there)
    }

    fn held_run<D: Disk>(
        &self,
        disk: &mut D,
        device: DevId,
        first: Vb,
        places: &mut [Option<Pb>],
    ) -> Result<bool, StoreError> {
        self.mapping.held_run(disk, device, first, places)
    }

    fn mapped<D: Disk>(&self, disk: &mut D, device: DevId) -> Result<Option<u32>, StoreError> {
        self.mapping.mapped(disk, device)
    }

    fn size<D: Disk>(&self, disk: &mut D, device: DevId) -> Result<Option<u32>, StoreError> {
        self.mapping.size(disk, device)
    }

    fn highest<D: Disk>(&self, disk: &mut D, device: DevId) -> Result<Option<Vb>, StoreError> {
        self.mapping.highest(disk, device)
    }

    fn walk<D: Disk>(
        &self,
        disk: &mut D,
        device: DevId,
        from: Vb,
        slots: &mut Slots,
    ) -> Result<bool, StoreError> {
        let mapped = self.mapping.mapped(disk, device)?;
        self.mapping.walk(disk, device, from, slots)?;
        Ok(mapped.is_some())
    }

    fn devices<D: Disk>(&self, disk: &mut D) -> Result<u32, StoreError> {
        if let Some(count) = self.devices {
            return Ok(count);
        }
        self.mapping.devices(disk)
    }

    fn next_id<D: Disk>(&self, disk: &mut D, from: DevId) -> Result<Option<DevId>, StoreError> {
        self.mapping.next_id(disk, from)
    }

    fn map<D: Disk>(
        &mut self,
        disk: &mut D,
        device: DevId,
        block: Vb,
    ) -> Result<Option<Pb>, StoreError> {
        let lost = self.mapping.look_up(disk, device, block)?;
        let Some(place) = self.mapping.map(disk, device, block)? else {
            return Ok(None);
        };
        let _ = self.mapping.store().geometry();
        lose(&mut self.marks, lost);
        self.is_changed = true;
        Ok(Some(place))
    }

    fn unmap_run<D: Disk>(
        &mut self,
        disk: &mut D,
        device: DevId,
        first: Vb,
        count: u32,
    ) -> Result<(), StoreError> {
        let mut places = [None; MOST_RUN];
        let places = &mut places[..count as usize];
        self.mapping.look_up_run(disk, device, first, places)?;
        if !has_some(places) {
            return Ok(());
        }
        self.mapping.unmap_run(disk, device, first, count)?;
        let _ = self.mapping.store().geometry();
        lose_each(&mut self.marks, places);
        self.is_changed = true;
        Ok(())
    }

    fn create<D: Disk>(&mut self, disk: &mut D, device: DevId) -> Result<(), StoreError> {
        let _ = device.number();
        self.mapping.create(disk, device)?;
        let _ = self.mapping.store().geometry();
        self.devices = one_more(self.devices);
        self.is_changed = true;
        Ok(())
    }

    fn snapshot<D: Disk>(
        &mut self,
        disk: &mut D,
        origin: DevId,
        device: DevId,
    ) -> Result<(), StoreError> {
        let _ = device.number();
        self.mapping.snapshot(disk, origin, device)?;
        let _ = self.mapping.store().geometry();
        self.devices = one_more(self.devices);
        self.is_changed = true;
        Ok(())
    }

    fn grow<D: Disk>(
        &mut self,
        disk: &mut D,
        device: DevId,
        blocks: u32,
    ) -> Result<(), StoreError> {
        self.mapping.grow(disk, device, blocks)?;
        let _ = self.mapping.store().geometry();
        self.is_changed = true;
        Ok(())
    }

    fn delete<D: Disk>(&mut self, disk: &mut D, device: DevId) -> Result<(), StoreError> {
        let _ = device.number();
        mark_device(&self.mapping, disk, device, &mut self.marks)?;
        self.mapping.delete(disk, device)?;
        let _ = self.mapping.store().geometry();
        self.devices = one_fewer(self.devices);
        self.is_changed = true;
        Ok(())
    }

    fn reserve(&mut self) -> Result<(), StoreError> {
        self.mapping.reserve()?;
        let _ = self.mapping.store().geometry();
        self.is_changed = true;
        Ok(())
    }

    fn release<D: Disk>(&mut self, disk: &mut D) -> Result<(), StoreError> {
        self.mapping.release(disk)?;
        let _ = self.mapping.store().geometry();
        self.marks.put_all();
        self.is_changed = true;
        Ok(())
    }

    fn set_transaction_id(&mut self, id: u64) {
        self.is_changed |= id != self.transaction_id;
        self.transaction_id = id;
    }

    fn set_needs_check(&mut self) {
        self.needs_check = true;
        self.is_changed = true;
    }

    fn commit<D: Disk>(&mut self, disk: &mut D) -> Result<(), Fault> {
        if !self.is_changed {
            disk.flush()?;
            self.marks.clear();
            return Ok(());
        }
        let next = self.next_superblock();
        let last = next;
        commit_store(self.mapping.store_mut(), disk, next, &mut self.stale)?;
        self.last = last;
        self.is_changed = false;
        self.marks.clear();
        Ok(())
    }

    fn begin<D: Disk>(&mut self, disk: &mut D) -> Result<bool, Fault> {
        if !self.is_changed {
            return Ok(false);
        }
        let next = self.next_superblock();
        match begin_store(self.mapping.store_mut(), disk, next, &self.stale) {
            Ok(()) => {}
            Err(Fault) => return Err(Fault),
        }
        match write_back(disk) {
            Ok(()) => Ok(true),
            Err(Fault) => Err(Fault),
        }
    }

    fn go_on<D: Disk>(&mut self, disk: &mut D) -> Result<(), Fault> {
        let next = self.next_superblock();
        match go_on_store(self.mapping.store(), disk, next, &self.stale) {
            Ok(()) => Ok(()),
            Err(Fault) => Err(Fault),
        }
    }

    fn end<D: Disk>(&mut self, disk: &mut D) -> Result<(), Fault> {
        let next = self.next_superblock();
        let last = next;
        match end_store(self.mapping.store_mut(), disk, next, &mut self.stale) {
            Ok(()) => {}
            Err(Fault) => return Err(Fault),
        }
        self.last = last;
        self.is_changed = false;
        self.marks.clear();
        Ok(())
    }

    ghost within = { λ m disk now kept st. stands_within m disk now kept st };

    ghost bounded = { λ m disk now kept st. stands_bounded m disk now kept st };

    ghost counted = { λ m disk now kept next last st then. stands_counted m disk now kept next last st then };

    ghost one = { λ m disk now kept next last st then. stands_one m disk now kept next last st then };

    ghost told = { λ m disk now kept st. tells_so m disk now kept st };

    ghost told_honest = { λ m disk now kept t. t.honest };

    ghost honest = { λ m disk now kept st. st.honest };

    ghost left = { λ m disk now kept st. stands_left m disk now kept st };

    ghost trees = { λ m disk now kept p st has. stands_trees m disk now kept p st has };

    ghost frame = { λ m old new now kept keeps st. frame_stands m old new now kept keeps st };
}

impl Meta {
    /// The superblock of the next commit.
    fn next_superblock(&self) -> Superblock
        ensures value { result ≡ next_of self.now }
        ensures sized { IsSized self.now.mapping.tm }
    {
        let _ = self.mapping.store().geometry();
        let held_root = self.mapping.store().held_root();
        Superblock {
            version: Version::OwnSizes,
            needs_check: self.needs_check,
            sequence: self.last.sequence.wrapping_add(1),
            transaction_id: self.transaction_id,
            geometry: self.last.geometry,
            root: self.mapping.root(),
            held_root,
        }
    }
}
