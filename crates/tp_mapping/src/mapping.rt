//! The contract of a mapping.

ghost use Rattle.std.specs.Prelude.{◌≡◌, ◌+◌, ◌*◌, ◌<◌, ◌≤◌, ◌^◌, ◌⊎◌, ℕ, List, [], IfErr, IfOk, IfSome, IsSome, IsTrue, MatchOption, None, OnOk, Some, is_some, length};
ghost use Rattle.tp_model.specs.Geometry.{Geometry, sectors_of_image};
ghost use Rattle.std.specs.Option.{option_map};
ghost use Rattle.tp_model.specs.Told.{IsToldSize, told_blocks};
ghost use Rattle.tp_model.specs.Disk.{DiskState, seen};
ghost use Rattle.tp_sharing.specs.Volumes.{BlockSlot, Volumes, device_of, devices_in, mapped_of, resized, size_of, used, with_device, with_slot, without_device};
ghost use Rattle.tp_counts.specs.Counts.{used_in};
ghost use Rattle.tp_mapping.specs.Mapping.{AreInside, AreTold, AreWithin, IsChanged, IsFilled, IsHighest, IsLeastFree, IsLonger, IsTold, LooksUp, NoneIsFree, SameTreeBlocks, free_places, from_block, size_for, slots_of};
ghost use Rattle.tp_mapping.specs.Next.{IsNext};
ghost use Rattle.tp_mapping.specs.Runs.{without_run};

use crate::mapped::Mapped;
use tp_counts::StoreError;
use tp_disk::Disk;
use tp_model::{DevId, Pb, Slots, Vb};

/// As many virtual blocks as a call of `look_up_run` looks up at most: those that a request touches.
pub const MOST_RUN: usize = 17;

/// A map from the virtual blocks of devices to data blocks, now and as the last commit kept it.
///
/// A mapping may stand on a disk, which each call that may read or write takes: the same one each time. What stands is said
/// where the disk is honest. Numbers of blocks are data blocks, or virtual blocks, of which each device has as many as its size says, and `room` counts free
/// metadata blocks of 4096 bytes. A call names at most as many more metadata blocks as it takes.
///
/// A call refuses with `Fault` exactly where the disk failed in it, and with `Damaged` where what it read is not a mapping's,
/// which is nowhere where the mapping stands on an honest disk. After an `Err` of a call that reads, the mapping is as
/// before. After an `Err` of a call that changes it, nothing is known of what it maps now; what the last commit names stands
/// on the disk as before.
pub trait Mapping {
    /// The sizes of the pool.
    ghost geometry: { Self → Geometry };

    /// On this disk it stands for these volumes now, and for these at the last commit.
    ghost stands: { Self → DiskState → Volumes → Volumes → Type 0 };

    /// The most virtual blocks that a device may have.
    ghost most_blocks: { Self → ℕ };

    /// How many metadata blocks are free.
    ghost room: { Self → ℕ };

    /// How often each metadata block is named now.
    ghost counts: { Self → List ℕ };

    /// How often the last commit names each metadata block.
    ghost kept_counts: { Self → List ℕ };

    /// The root of a held copy of the trees; 0 where there is none.
    ghost held_root: { Self → ℕ };

    /// How often the last commit names each data block.
    ghost kept_data: { Self → List ℕ };

    /// The data block of a virtual block of a device, and whether another slot has it too. `None` where the virtual block
    /// has none, or there is no such device.
    fn look_up<D: Disk>(
        &self,
        disk: &mut D,
        device: DevId,
        block: Vb,
    ) -> Result<Option<Mapped>, StoreError>
        requires disk { sectors_of_image (geometry self.now) ≤ (D.state disk.old).size }
        ensures looked { LooksUp (stands self.now) (D.state disk.old) (D.state disk.new) result (λ answer now. IsTold device block now answer) }
        ensures inside { IfOk result (λ answer. IfSome answer (λ at. at.place < (geometry self.now).data_blocks)) };

    /// Looks up the virtual blocks of a device from `first` on, one for each place, 17 at most. It tells whether there is such a
    /// device; where there is none, no block has a data block. The device is looked up once, and each node of the path
    /// to a leaf is read once for each leaf that the run touches. After an `Err` some places may have been told.
    fn look_up_run<D: Disk>(
        &self,
        disk: &mut D,
        device: DevId,
        first: Vb,
        places: &mut [Option<Mapped>],
    ) -> Result<bool, StoreError>
        requires disk { sectors_of_image (geometry self.now) ≤ (D.state disk.old).size }
        requires few { length places.old ≤ 17 }
        requires run { first + length places.old ≤ 2 ^ 24 }
        ensures length { length places.new ≡ length places.old }
        ensures looked { LooksUp (stands self.now) (D.state disk.old) (D.state disk.new) result (λ is_there now. (is_there ≡ is_some (device_of device now))
            × AreTold device first now (length places.old) places.new) }
        ensures inside { OnOk result (AreInside (geometry self.now).data_blocks (length places.old) places.new) };

    /// How many virtual blocks of a device have a data block. `None` where there is no such device.
    fn mapped<D: Disk>(&self, disk: &mut D, device: DevId) -> Result<Option<u32>, StoreError>
        requires disk { sectors_of_image (geometry self.now) ≤ (D.state disk.old).size }
        ensures { LooksUp (stands self.now) (D.state disk.old) (D.state disk.new) result (λ answer now. answer ≡ mapped_of device now) };

    /// How many virtual blocks a device has. `None` where there is no such device.
    fn size<D: Disk>(&self, disk: &mut D, device: DevId) -> Result<Option<u32>, StoreError>
        requires disk { sectors_of_image (geometry self.now) ≤ (D.state disk.old).size }
        ensures sized { LooksUp (stands self.now) (D.state disk.old) (D.state disk.new) result (λ answer now. answer ≡ option_map (told_blocks (geometry self.now)) (size_of device now)) }
        ensures few { IfOk result (λ answer. IfSome answer (λ blocks. blocks ≤ 2 ^ 24)) };

    /// The greatest virtual block of a device that has a data block. `None` where none has one, or there is no such device.
    fn highest<D: Disk>(&self, disk: &mut D, device: DevId) -> Result<Option<Vb>, StoreError>
        requires disk { sectors_of_image (geometry self.now) ≤ (D.state disk.old).size }
        ensures { LooksUp (stands self.now) (D.state disk.old) (D.state disk.new) result (λ answer now. IsHighest device now answer) };

    /// Adds the slots of a device with virtual blocks from `from` on, in their order, until `slots` is full; none where there
    /// is no such device. A volume of any size is walked in pieces: the next begins behind the last virtual block. After an
    /// `Err` some slots may have been added.
    fn walk<D: Disk>(
        &self,
        disk: &mut D,
        device: DevId,
        from: Vb,
        slots: &mut Slots,
    ) -> Result<(), StoreError>
        requires disk { sectors_of_image (geometry self.now) ≤ (D.state disk.old).size }
        ensures looked { LooksUp (stands self.now) (D.state disk.old) (D.state disk.new) result (λ done now. IsFilled (from_block from (slots_of device now)) slots.old.items slots.new.items) }
        ensures longer { IsLonger slots.old.items slots.new.items };

    /// How many devices there are.
    fn devices<D: Disk>(&self, disk: &mut D) -> Result<u32, StoreError>
        requires disk { sectors_of_image (geometry self.now) ≤ (D.state disk.old).size }
        ensures { LooksUp (stands self.now) (D.state disk.old) (D.state disk.new) result (λ answer now. answer ≡ devices_in now) };

    /// The least id of a device that is `from` or more, if there is one.
    fn next_id<D: Disk>(&self, disk: &mut D, from: DevId) -> Result<Option<DevId>, StoreError>
        requires disk { sectors_of_image (geometry self.now) ≤ (D.state disk.old).size }
        ensures { LooksUp (stands self.now) (D.state disk.old) (D.state disk.new) result (λ answer now. IsNext from now answer) };

    /// How many data blocks the slots have.
    fn used(&self) -> u64
        ensures { (disk : DiskState) (now kept : Volumes) → stands self.now disk now kept → result ≡ used now };

    /// How many metadata blocks are free.
    fn free_metadata(&self) -> u32
        ensures { result ≡ room self.now };

    /// How many data blocks are free: no slot has them, and none had them at the last commit.
    fn free_data(&self) -> u64
        ensures { (disk : DiskState) (now kept : Volumes) → stands self.now disk now kept → result ≡ free_places (geometry self.now) now kept };

    /// Gives a virtual block of a device that exists, below its size, the least free data block, in place of the one that it had. A data
    /// block is free where no slot has it and none had it at the last commit. `None` where none is free; then nothing
    /// changes. It takes 16 metadata blocks at most, and at most 16 more are named then.
    fn map<D: Disk>(
        &mut self,
        disk: &mut D,
        device: DevId,
        block: Vb,
    ) -> Result<Option<Pb>, StoreError>
        requires disk { sectors_of_image (geometry self.old) ≤ (D.state disk.old).size }
        requires room { 16 ≤ room self.old }
        ensures changed { IsChanged geometry room (λ m. used_in (geometry m).metadata_blocks (counts m)) kept_counts kept_data held_root 16 self.old self.new (D.state disk.old) (D.state disk.new) result
            (λ P. IsTrue (D.state disk.old).is_honest → (now kept : Volumes) → stands self.old (D.state disk.old) now kept → IsSome (device_of device now)
            → ((size : ℕ) → size_of device now ≡ Some size → block < told_blocks (geometry self.old) size) → P now kept)
            (λ answer now kept. MatchOption answer (NoneIsFree (geometry self.old) now kept) (λ place. IsLeastFree (geometry self.old) now kept place
            × stands self.new (D.state disk.new) (with_slot device (record { block = block; place = place }) now) kept)) }
        ensures inside { IfOk result (λ answer. IfSome answer (λ place. place < (geometry self.old).data_blocks)) }
        ensures none { result ≡ Ok None → (self.new ≡ self.old) × (D.state disk.new ≡ D.state disk.old) }
        ensures used { used_in (geometry self.new).metadata_blocks (counts self.new) ≤ used_in (geometry self.old).metadata_blocks (counts self.old) + 16 };

    /// Takes the data blocks of `count` virtual blocks of a device that exists, from `first` on, where they have one. The device
    /// is taken out of its place once for all of them: it takes 7 metadata blocks for each at most, and 7 more, and at most as many more are
    /// named then.
    fn unmap_run<D: Disk>(
        &mut self,
        disk: &mut D,
        device: DevId,
        first: Vb,
        count: u32,
    ) -> Result<(), StoreError>
        requires disk { sectors_of_image (geometry self.old) ≤ (D.state disk.old).size }
        requires run { first + count ≤ 2 ^ 24 }
        requires room { 7 * count + 7 ≤ room self.old }
        ensures changed { IsChanged geometry room (λ m. used_in (geometry m).metadata_blocks (counts m)) kept_counts kept_data held_root (7 * count + 7) self.old self.new (D.state disk.old) (D.state disk.new) result
            (λ P. IsTrue (D.state disk.old).is_honest → (now kept : Volumes) → stands self.old (D.state disk.old) now kept → IsSome (device_of device now) → P now kept)
            (λ done now kept. stands self.new (D.state disk.new) (without_run device first count now) kept) }
        ensures used { used_in (geometry self.new).metadata_blocks (counts self.new) ≤ used_in (geometry self.old).metadata_blocks (counts self.old) + (7 * count + 7) };

    /// Adds a device without slots, of an id that no device has, to fewer than 65536. It takes 8 metadata blocks at most, and at
    /// most 8 more are named then; 24 are to be free, so that 16 stay for what makes room.
    fn create<D: Disk>(&mut self, disk: &mut D, device: DevId) -> Result<(), StoreError>
        requires disk { sectors_of_image (geometry self.old) ≤ (D.state disk.old).size }
        requires room { 24 ≤ room self.old }
        ensures changed { IsChanged geometry room (λ m. used_in (geometry m).metadata_blocks (counts m)) kept_counts kept_data held_root 8 self.old self.new (D.state disk.old) (D.state disk.new) result
            (λ P. IsTrue (D.state disk.old).is_honest → (now kept : Volumes) → stands self.old (D.state disk.old) now kept → device_of device now ≡ None → devices_in now < 65536
            → P now kept)
            (λ done now kept. stands self.new (D.state disk.new) (with_device (record { id = device; size = 0; slots = [] }) now) kept) }
        ensures used { used_in (geometry self.new).metadata_blocks (counts self.new) ≤ used_in (geometry self.old).metadata_blocks (counts self.old) + 8 };

    /// Adds a device with the size and the slots of another one, of an id that no device has, to fewer than 65536. It takes 8 metadata
    /// blocks at most; 24 are to be free, so that 16 stay for what makes room. At most 3 more are named then, where no copy of the trees is held.
    fn snapshot<D: Disk>(
        &mut self,
        disk: &mut D,
        origin: DevId,
        device: DevId,
    ) -> Result<(), StoreError>
        requires disk { sectors_of_image (geometry self.old) ≤ (D.state disk.old).size }
        requires room { 24 ≤ room self.old }
        ensures { IsChanged geometry room (λ m. used_in (geometry m).metadata_blocks (counts m)) kept_counts kept_data held_root 8 self.old self.new (D.state disk.old) (D.state disk.new) result
            (λ P. IsTrue (D.state disk.old).is_honest → (now kept : Volumes) → stands self.old (D.state disk.old) now kept → device_of device now ≡ None → devices_in now < 65536
            → IsSome (device_of origin now) → P now kept)
            (λ done now kept. ((slots : List BlockSlot) (size : ℕ) → device_of origin now ≡ Some slots → size_of origin now ≡ Some size
            → stands self.new (D.state disk.new) (with_device (record { id = device; size = size; slots = slots }) now) kept)
            × (held_root self.old ≡ 0 → used_in (geometry self.new).metadata_blocks (counts self.new) ≤ used_in (geometry self.old).metadata_blocks (counts self.old) + 3)) };

    /// Gives a device that exists so many virtual blocks, no fewer than it has. Those behind its old end have no data block. It takes 8
    /// metadata blocks at most; 24 are to be free, so that 16 stay for what makes room. At most 1 more is named then, where no copy of the trees is held.
    fn grow<D: Disk>(&mut self, disk: &mut D, device: DevId, blocks: u32) -> Result<(), StoreError>
        requires disk { sectors_of_image (geometry self.old) ≤ (D.state disk.old).size }
        requires room { 24 ≤ room self.old }
        requires most { blocks ≤ most_blocks self.old }
        ensures { IsChanged geometry room (λ m. used_in (geometry m).metadata_blocks (counts m)) kept_counts kept_data held_root 8 self.old self.new (D.state disk.old) (D.state disk.new) result
            (λ P. IsTrue (D.state disk.old).is_honest → (now kept : Volumes) → stands self.old (D.state disk.old) now kept → IsSome (device_of device now)
            → IsToldSize (geometry self.old) (size_for (geometry self.old) blocks) → ((size : ℕ) → size_of device now ≡ Some size → told_blocks (geometry self.old) size ≤ blocks)
            → P now kept)
            (λ done now kept. stands self.new (D.state disk.new) (resized device (size_for (geometry self.old) blocks) now) kept
            × (held_root self.old ≡ 0 → used_in (geometry self.new).metadata_blocks (counts self.new) ≤ used_in (geometry self.old).metadata_blocks (counts self.old) + 1)) };

    /// Removes a device that exists, with its slots. It takes 16 metadata blocks at most. No more are named then, where no copy of the trees is
    /// held.
    fn delete<D: Disk>(&mut self, disk: &mut D, device: DevId) -> Result<(), StoreError>
        requires disk { sectors_of_image (geometry self.old) ≤ (D.state disk.old).size }
        requires room { 16 ≤ room self.old }
        ensures { IsChanged geometry room (λ m. used_in (geometry m).metadata_blocks (counts m)) kept_counts kept_data held_root 16 self.old self.new (D.state disk.old) (D.state disk.new) result
            (λ P. IsTrue (D.state disk.old).is_honest → (now kept : Volumes) → stands self.old (D.state disk.old) now kept → IsSome (device_of device now) → P now kept)
            (λ done now kept. stands self.new (D.state disk.new) (without_device device now) kept
            × (held_root self.old ≡ 0 → used_in (geometry self.new).metadata_blocks (counts self.new) ≤ used_in (geometry self.old).metadata_blocks (counts self.old))) };

    /// A commit was kept: the volumes at the last commit are those of now.
    fn keep(&mut self)
        ensures kept { (disk : DiskState) (now kept : Volumes) → stands self.old disk now kept → stands self.new disk now now }
        ensures geometry { geometry self.new ≡ geometry self.old }
        ensures counts { (counts self.new ≡ counts self.old) × (kept_counts self.new ≡ counts self.old) }
        ensures held { held_root self.new ≡ held_root self.old }
        ensures room { room self.old ≤ room self.new };

    /// What stands is within the pool's sizes.
    ghost within: { (mapping : Self) (disk : DiskState) (now kept : Volumes) → stands mapping disk now kept
        → AreWithin (geometry mapping) (kept_counts mapping) now kept };

    /// However what stands is told, it is the same volumes now.
    ghost one: { (mapping : Self) (disk : DiskState) (now kept next last : Volumes) → stands mapping disk now kept → stands mapping disk next last → next ≡ now };

    /// It stands in the metadata blocks behind the fixed part: what else is written to the disk leaves it as it was.
    ghost frame: { (mapping : Self) (old new : DiskState) (now kept : Volumes) → SameTreeBlocks (geometry mapping) (seen old.cells) (seen new.cells)
        → stands mapping old now kept → stands mapping new now kept };
}
