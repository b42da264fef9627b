//! The contract of a pool's metadata.

ghost use Rattle.std.specs.Prelude.{◌≡◌, ◌⊎◌, ◌+◌, ◌*◌, ◌<◌, ◌≤◌, ◌^◌, ◌||◌, ◌==◌, ◌++◌, ℕ, List, Bool, [], IfErr, IfOk, IfSome, IsSome, IsTrue, MatchOption, None, OnErr, OnOk, Ok, Some, false, is_some, if◌then◌else◌, length, map, not, replicate, slice_index_or, true};
ghost use Rattle.std.specs.Option.{option_map};
ghost use Rattle.tp_model.specs.Geometry.{Geometry, sectors_of_image};
ghost use Rattle.tp_model.specs.Told.{IsToldSize, told_blocks};
ghost use Rattle.tp_model.specs.Disk.{DiskState, IsSameDisk, seen};
ghost use Rattle.tp_model.specs.DiskStops.{Leaves};
ghost use Rattle.tp_sharing.specs.Volumes.{as_copy, device_of, devices_in, mapped_of, resized, size_of, slot_of, used, with_device, with_slot, without_device};
ghost use Rattle.tp_model.specs.Pool.{PlainPool, copy_id};
ghost use Rattle.tp_image.specs.Stands.{HasTrees};
ghost use Rattle.tp_stored.specs.Contents.{Contents, HasContents, HoldsContents};
ghost use Rattle.tp_stored.specs.Laws.{AreBounded};
ghost use Rattle.tp_mapping.specs.Mapping.{IsFilled, IsHighest, IsLeastFree, NoneIsFree, free_places, from_block, size_for, size_or_none, slots_of, without_copies};
ghost use Rattle.tp_mapping.specs.Next.{IsNext};
ghost use Rattle.tp_mapping.specs.Runs.{without_run};
ghost use Rattle.tp_mapping.specs.Telling.{AreCopied};
ghost use Rattle.tp_meta.specs.Metadata.{AreInside, AreTold, AreWithin, IsAltered, IsBetween, IsCommitted, KeepsMetadata, LooksUp, StandsWith, marked, marked_all, marked_run};

use tp_counts::StoreError;
use tp_disk::{Disk, Fault};
use tp_model::{DevId, Geometry, Pb, Slots, Vb};

/// Where a virtual block stands.
#[derive(Clone, Copy, Debug, PartialEq, Eq)]
pub struct Home {
    /// The data block.
    pub place: Pb,
    /// Whether another slot has the data block too.
    pub is_shared: bool,
    /// Whether a slot lost the data block since the last commit: then it may be one of several that the commit gave it to.
    pub is_hot: bool,
}

/// The metadata of a pool: which data block each virtual block has, now and as the last commit kept it.
///
/// They stand on a disk that each call takes, the same one each time. What stands is said of an honest disk alone. A
/// call refuses with `Fault` exactly where the disk failed in it, and with `Damaged` where what it read is none of
/// a pool's, which is nowhere where the metadata stand. After an `Err` of a call that reads, they are as before. After
/// an `Err` of a call that changes them, nothing is known of what they map now; a stop leaves what the last commit kept.
pub trait Metadata {
    /// The sizes of the pool.
    ghost geometry: { Self → Geometry };

    /// On this disk, which is honest, they stand for these contents now, and a stop leaves these of the last commit.
    ghost stands: { Self → DiskState → Contents → Contents → Type 0 };

    /// For each data block, whether a slot lost it since the last commit.
    ghost marks: { Self → List Bool };

    /// How many metadata blocks are free.
    ghost room: { Self → ℕ };

    /// Whether a node, a count or a field of the superblock has changed since the last commit.
    ghost changed: { Self → Bool };

    /// On this disk, which is honest, look-ups tell these contents now, whatever a stop leaves: where they stand, and in the midst of a commit of
    /// what stood before it.
    ghost tells: { Self → DiskState → Contents → Contents → Type 0 };

    /// A commit was begun on the first disk, which is now as the second one: `begin` was done, or `go_on` too, and nothing but reads since.
    ghost midway: { Self → Bool → DiskState → DiskState → Type 0 };

    /// The sizes of the pool.
    fn geometry(&self) -> Geometry
        ensures { result ≡ geometry self.now };

    fn transaction_id(&self) -> u64
        ensures { (disk : DiskState) (now kept : Contents) → stands self.now disk now kept → result ≡ now.transaction_id };

    fn needs_check(&self) -> bool
        ensures { (disk : DiskState) (now kept : Contents) → stands self.now disk now kept → result ≡ now.needs_check };

    /// The root of a held copy of all volumes; 0 where none is held. The copy of a device stands behind all devices, under its id and 2^24.
    fn held_root(&self) -> u32
        ensures { (disk : DiskState) (now kept : Contents) → stands self.now disk now kept → result ≡ now.held_root };

    /// How many metadata blocks the pool names.
    fn used_metadata(&self) -> u32
        ensures { (disk : DiskState) (now kept : Contents) → stands self.now disk now kept → result ≡ now.meta_used };

    /// How many metadata blocks are free: named neither now nor by the last commit.
    fn free_metadata(&self) -> u32
        ensures { result ≡ room self.now };

    /// How many data blocks slots have.
    fn used_data(&self) -> u64
        ensures { (disk : DiskState) (now kept : Contents) → stands self.now disk now kept → result ≡ used now.volumes };

    /// How many data blocks are free: no slot has them, and none had them at the last commit.
    fn free_data(&self) -> u64
        ensures { (disk : DiskState) (now kept : Contents) → stands self.now disk now kept → result ≡ free_places (geometry self.now) now.volumes kept.volumes };

    /// Looks up the virtual blocks of a device from `first` on, one for each place, 17 at most. It tells whether there is such a
    /// device; where there is none, no block has a data block. After an `Err` some places may have been told.
    fn look_up_run<D: Disk>(
        &self,
        disk: &mut D,
        device: DevId,
        first: Vb,
        homes: &mut [Option<Home>],
    ) -> Result<bool, StoreError>
        requires disk { sectors_of_image (geometry self.now) ≤ (D.state disk.old).size }
        requires few { length homes.old ≤ 17 }
        requires run { first + length homes.old ≤ 2 ^ 24 }
        ensures length { length homes.new ≡ length homes.old }
        ensures looked { LooksUp (stands self.now) (D.state disk.old) (D.state disk.new) result (λ is_there now. (is_there ≡ is_some (device_of device now.volumes))
            × AreTold device first now.volumes (marks self.now) (length homes.old) homes.new) }
        ensures read { LooksUp (tells self.now) (D.state disk.old) (D.state disk.new) result (λ is_there now. (is_there ≡ is_some (device_of device now.volumes))
            × AreTold device first now.volumes (marks self.now) (length homes.old) homes.new) }
        ensures inside { OnOk result (AreInside (geometry self.now).data_blocks (length homes.old) homes.new) };

    /// Looks up the virtual blocks of a device of the held copy from `first` on, one for each place, 17 at most. It tells whether there
    /// is such a device in it; where there is none, or no copy, no block has a data block. After an `Err` some places may have been told.
    fn held_run<D: Disk>(
        &self,
        disk: &mut D,
        device: DevId,
        first: Vb,
        places: &mut [Option<Pb>],
    ) -> Result<bool, StoreError>
        requires disk { sectors_of_image (geometry self.now) ≤ (D.state disk.old).size }
        requires few { length places.old ≤ 17 }
        requires run { first + length places.old ≤ 2 ^ 24 }
        ensures length { length places.new ≡ length places.old }
        ensures looked { LooksUp (stands self.now) (D.state disk.old) (D.state disk.new) result (λ is_there now. (is_there ≡ is_some (device_of (copy_id device) now.volumes))
            × AreCopied device first now.volumes (length places.old) places.new) }
        ensures read { LooksUp (tells self.now) (D.state disk.old) (D.state disk.new) result (λ is_there now. (is_there ≡ is_some (device_of (copy_id device) now.volumes))
            × AreCopied device first now.volumes (length places.old) places.new) }
        ensures inside { OnOk result ((i : ℕ) → i < length places.old → IfSome (slice_index_or places.new i None) (λ place. place < (geometry self.now).data_blocks)) };

    /// How many virtual blocks of a device have a data block. `None` where there is no such device.
    fn mapped<D: Disk>(&self, disk: &mut D, device: DevId) -> Result<Option<u32>, StoreError>
        requires disk { sectors_of_image (geometry self.now) ≤ (D.state disk.old).size }
        ensures { LooksUp (stands self.now) (D.state disk.old) (D.state disk.new) result (λ answer now. answer ≡ mapped_of device now.volumes) };

    /// How many virtual blocks a device has. `None` where there is no such device.
    fn size<D: Disk>(&self, disk: &mut D, device: DevId) -> Result<Option<u32>, StoreError>
        requires disk { sectors_of_image (geometry self.now) ≤ (D.state disk.old).size }
        ensures sized { LooksUp (stands self.now) (D.state disk.old) (D.state disk.new) result (λ answer now. answer ≡ option_map (told_blocks (geometry self.now)) (size_of device now.volumes)) }
        ensures few { IfOk result (λ answer. IfSome answer (λ blocks. blocks ≤ 2 ^ 24)) };

    /// The greatest virtual block of a device that has a data block. `None` where none has one, or there is no such device.
    fn highest<D: Disk>(&self, disk: &mut D, device: DevId) -> Result<Option<Vb>, StoreError>
        requires disk { sectors_of_image (geometry self.now) ≤ (D.state disk.old).size }
        ensures { LooksUp (stands self.now) (D.state disk.old) (D.state disk.new) result (λ answer now. IsHighest device now.volumes answer) };

    /// Adds the slots of a device with virtual blocks from `from` on, in their order, until `slots` is full. It tells whether there is such a device; where there is none,
    /// nothing is added. A volume of any size is walked in pieces: the next begins behind the last virtual block. After an `Err` some slots may have been added.
    fn walk<D: Disk>(
        &self,
        disk: &mut D,
        device: DevId,
        from: Vb,
        slots: &mut Slots,
    ) -> Result<bool, StoreError>
        requires disk { sectors_of_image (geometry self.now) ≤ (D.state disk.old).size }
        ensures looked { LooksUp (stands self.now) (D.state disk.old) (D.state disk.new) result (λ is_there now. (is_there ≡ is_some (device_of device now.volumes))
            × IsFilled (from_block from (slots_of device now.volumes)) slots.old.items slots.new.items) }
        ensures read { LooksUp (tells self.now) (D.state disk.old) (D.state disk.new) result (λ is_there now. (is_there ≡ is_some (device_of device now.volumes))
            × IsFilled (from_block from (slots_of device now.volumes)) slots.old.items slots.new.items) };

    /// How many devices there are.
    fn devices<D: Disk>(&self, disk: &mut D) -> Result<u32, StoreError>
        requires disk { sectors_of_image (geometry self.now) ≤ (D.state disk.old).size }
        ensures { LooksUp (stands self.now) (D.state disk.old) (D.state disk.new) result (λ answer now. answer ≡ devices_in now.volumes) };

    /// The least id of a device that is `from` or more, if there is one.
    fn next_id<D: Disk>(&self, disk: &mut D, from: DevId) -> Result<Option<DevId>, StoreError>
        requires disk { sectors_of_image (geometry self.now) ≤ (D.state disk.old).size }
        ensures { LooksUp (stands self.now) (D.state disk.old) (D.state disk.new) result (λ answer now. IsNext from now.volumes answer) };

    /// Gives a virtual block of a device that exists, below its size, the least free data block, in place of the one that it had, which is
    /// marked. `None` where none is free; then nothing changes. It takes 16 metadata blocks at most, and at most 16 more are
    /// named then.
    fn map<D: Disk>(
        &mut self,
        disk: &mut D,
        device: DevId,
        block: Vb,
    ) -> Result<Option<Pb>, StoreError>
        requires disk { sectors_of_image (geometry self.old) ≤ (D.state disk.old).size }
        requires room { 16 ≤ room self.old }
        ensures altered { IsAltered geometry stands room 16 self.old self.new (D.state disk.old) (D.state disk.new) result
            (λ P. (now kept : Contents) → stands self.old (D.state disk.old) now kept → IsSome (device_of device now.volumes)
            → ((size : ℕ) → size_of device now.volumes ≡ Some size → block < told_blocks (geometry self.old) size) → P now kept)
            (λ answer now kept. MatchOption answer (NoneIsFree (geometry self.old) now.volumes kept.volumes) (λ place. IsLeastFree (geometry self.old) now.volumes kept.volumes place
            × StandsWith stands marks self.new (D.state disk.new) now kept
            (with_slot device (record { block = block; place = place }) now.volumes) (marked (slot_of device block now.volumes) (marks self.old)))) }
        ensures inside { IfOk result (λ answer. IfSome answer (λ place. place < (geometry self.old).data_blocks)) }
        ensures none { result ≡ Ok None → (self.new ≡ self.old) × (D.state disk.new ≡ D.state disk.old) }
        ensures used { (now kept next last : Contents) → stands self.old (D.state disk.old) now kept → stands self.new (D.state disk.new) next last
            → next.meta_used ≤ now.meta_used + 16 };

    /// Takes the data blocks of `count` virtual blocks of a device from `first` on, 17 at most, where they have one, and marks them. Where
    /// none has one, or there is no such device, nothing changes. It takes 7 metadata blocks for each at most, and 7 more, and at most as
    /// many more are named then.
    fn unmap_run<D: Disk>(
        &mut self,
        disk: &mut D,
        device: DevId,
        first: Vb,
        count: u32,
    ) -> Result<(), StoreError>
        requires disk { sectors_of_image (geometry self.old) ≤ (D.state disk.old).size }
        requires few { count ≤ 17 }
        requires run { first + count ≤ 2 ^ 24 }
        requires room { 7 * count + 7 ≤ room self.old }
        ensures altered { IsAltered geometry stands room (7 * count + 7) self.old self.new (D.state disk.old) (D.state disk.new) result
            (λ P. (now kept : Contents) → stands self.old (D.state disk.old) now kept → P now kept)
            (λ done now kept. StandsWith stands marks self.new (D.state disk.new) now kept (without_run device first count now.volumes) (marked_run device first count now.volumes (marks self.old))) }
        ensures none { OnOk result ((now kept : Contents) → stands self.old (D.state disk.old) now kept
            → ((i : ℕ) → i < count → slot_of device (first + i) now.volumes ≡ None) → (self.new ≡ self.old) × (D.state disk.new ≡ D.state disk.old)) }
        ensures used { (now kept next last : Contents) → stands self.old (D.state disk.old) now kept → stands self.new (D.state disk.new) next last
            → next.meta_used ≤ now.meta_used + (7 * count + 7) };

    /// Adds a device without slots, of an id that no device has, to fewer than 65536. It takes 64 metadata blocks at most, and at
    /// most 8 more are named then.
    fn create<D: Disk>(&mut self, disk: &mut D, device: DevId) -> Result<(), StoreError>
        requires disk { sectors_of_image (geometry self.old) ≤ (D.state disk.old).size }
        requires room { 64 ≤ room self.old }
        ensures altered { IsAltered geometry stands room 64 self.old self.new (D.state disk.old) (D.state disk.new) result
            (λ P. (now kept : Contents) → stands self.old (D.state disk.old) now kept → device_of device now.volumes ≡ None → devices_in now.volumes < 65536 → P now kept)
            (λ done now kept. StandsWith stands marks self.new (D.state disk.new) now kept (with_device (record { id = device; size = 0; slots = [] }) now.volumes) (marks self.old)) }
        ensures used { (now kept next last : Contents) → stands self.old (D.state disk.old) now kept → stands self.new (D.state disk.new) next last
            → next.meta_used ≤ now.meta_used + 8 };

    /// Adds a device with the size and the slots that another one has now, of an id that no device has, to fewer than 65536. It takes 64 metadata blocks
    /// at most, and at most 3 more are named then, whatever the other one has, where no root is held.
    fn snapshot<D: Disk>(
        &mut self,
        disk: &mut D,
        origin: DevId,
        device: DevId,
    ) -> Result<(), StoreError>
        requires disk { sectors_of_image (geometry self.old) ≤ (D.state disk.old).size }
        requires room { 64 ≤ room self.old }
        ensures altered { IsAltered geometry stands room 64 self.old self.new (D.state disk.old) (D.state disk.new) result
            (λ P. (now kept : Contents) → stands self.old (D.state disk.old) now kept → device_of device now.volumes ≡ None → devices_in now.volumes < 65536
            → IsSome (device_of origin now.volumes) → P now kept)
            (λ done now kept. StandsWith stands marks self.new (D.state disk.new) now kept (with_device (record { id = device; size = size_or_none now.volumes origin; slots = slots_of origin now.volumes }) now.volumes) (marks self.old)) }
        ensures used { OnOk result ((now kept next last : Contents) → stands self.old (D.state disk.old) now kept → stands self.new (D.state disk.new) next last
            → device_of device now.volumes ≡ None → devices_in now.volumes < 65536 → IsSome (device_of origin now.volumes) → now.held_root ≡ 0 → next.meta_used ≤ now.meta_used + 3) };

    /// Gives a device that exists so many virtual blocks, no fewer than it has. Those behind its old end have no data block. It takes 64
    /// metadata blocks at most, and at most 1 more is named then, where no root is held.
    fn grow<D: Disk>(&mut self, disk: &mut D, device: DevId, blocks: u32) -> Result<(), StoreError>
        requires disk { sectors_of_image (geometry self.old) ≤ (D.state disk.old).size }
        requires room { 64 ≤ room self.old }
        requires most { blocks ≤ 2 ^ 24 }
        ensures altered { IsAltered geometry stands room 64 self.old self.new (D.state disk.old) (D.state disk.new) result
            (λ P. (now kept : Contents) → stands self.old (D.state disk.old) now kept → IsSome (device_of device now.volumes) → IsToldSize (geometry self.old) (size_for (geometry self.old) blocks)
            → ((size : ℕ) → size_of device now.volumes ≡ Some size → told_blocks (geometry self.old) size ≤ blocks) → P now kept)
            (λ done now kept. StandsWith stands marks self.new (D.state disk.new) now kept (resized device (size_for (geometry self.old) blocks) now.volumes) (marks self.old)) }
        ensures used { OnOk result ((now kept next last : Contents) → stands self.old (D.state disk.old) now kept → stands self.new (D.state disk.new) next last
            → IsSome (device_of device now.volumes) → IsToldSize (geometry self.old) (size_for (geometry self.old) blocks)
            → ((size : ℕ) → size_of device now.volumes ≡ Some size → told_blocks (geometry self.old) size ≤ blocks) → now.held_root ≡ 0 → next.meta_used ≤ now.meta_used + 1) };

    /// Removes a device that exists, with its slots, and marks their data blocks. It takes 16 metadata blocks at most. No more are named then
    /// where no root is held, and else at most 16 more.
    fn delete<D: Disk>(&mut self, disk: &mut D, device: DevId) -> Result<(), StoreError>
        requires disk { sectors_of_image (geometry self.old) ≤ (D.state disk.old).size }
        requires room { 16 ≤ room self.old }
        ensures { IsAltered geometry stands room 16 self.old self.new (D.state disk.old) (D.state disk.new) result
            (λ P. (now kept : Contents) → stands self.old (D.state disk.old) now kept → IsSome (device_of device now.volumes) → P now kept)
            (λ done now kept. ((meta_used : ℕ) × (meta_used ≤ now.meta_used + (if now.held_root == 0 then 0 else 16)) × stands self.new (D.state disk.new) (record now { volumes = without_device device now.volumes; meta_used = meta_used }) kept)
            × (marks self.new ≡ marked_all (slots_of device now.volumes) (marks self.old))) };

    /// Holds a copy of all volumes as they are now, where none is held: their trees are shared. It takes no metadata block, and no more are
    /// named then.
    fn reserve(&mut self) -> Result<(), StoreError>
        ensures altered { (disk : DiskState) → IsAltered geometry stands room 1 self.old self.new disk disk result
            (λ P. (now kept : Contents) → stands self.old disk now kept → now.held_root ≡ 0 → P now kept)
            (λ done now kept. ((root : ℕ) × (0 < root) × stands self.new disk (record now { volumes = now.volumes ++ map as_copy now.volumes; held_root = root }) kept)
            × (marks self.new ≡ marks self.old) × (room self.old ≤ room self.new)) };

    /// Gives the held copy up, where one is held: what nothing else names is free. Each data block is marked. It takes no metadata block, and
    /// no more are named then.
    fn release<D: Disk>(&mut self, disk: &mut D) -> Result<(), StoreError>
        requires disk { sectors_of_image (geometry self.old) ≤ (D.state disk.old).size }
        ensures altered { IsAltered geometry stands room 0 self.old self.new (D.state disk.old) (D.state disk.new) result
            (λ P. (now kept : Contents) → stands self.old (D.state disk.old) now kept → 0 < now.held_root → P now kept)
            (λ done now kept. ((meta_used : ℕ) × (meta_used ≤ now.meta_used)
            × stands self.new (D.state disk.new) (record now { volumes = without_copies now.volumes; held_root = 0; meta_used = meta_used }) kept)
            × (marks self.new ≡ replicate (geometry self.old).data_blocks true)) };

    /// From now on this is the pool's transaction id. Where it was that before, nothing has changed.
    fn set_transaction_id(&mut self, id: u64)
        ensures stands { (disk : DiskState) (now kept : Contents) → stands self.old disk now kept
            → stands self.new disk (record now { transaction_id = id }) kept }
        ensures geometry { geometry self.new ≡ geometry self.old }
        ensures room { room self.new ≡ room self.old }
        ensures marks { marks self.new ≡ marks self.old }
        ensures changed { (disk : DiskState) (now kept : Contents) → stands self.old disk now kept
            → changed self.new ≡ (changed self.old || not (id == now.transaction_id)) };

    /// From now on the pool wants a check.
    fn set_needs_check(&mut self)
        ensures stands { (disk : DiskState) (now kept : Contents) → stands self.old disk now kept
            → stands self.new disk (record now { needs_check = true }) kept }
        ensures geometry { geometry self.new ≡ geometry self.old }
        ensures room { room self.new ≡ room self.old }
        ensures marks { marks self.new ≡ marks self.old }
        ensures changed { changed self.new ≡ true };

    /// Keeps what stands now, and what was written to the data blocks. It refuses where the disk failed.
    ///
    /// The nodes and the counts are written before the superblock, with a flush between and one behind; where nothing has
    /// changed since the last commit, there is one flush alone. A stop leaves what the last commit kept or what stands now;
    /// after an `Ok` the latter, and nothing was written behind the last flush.
    fn commit<D: Disk>(&mut self, disk: &mut D) -> Result<(), Fault>
        requires disk { sectors_of_image (geometry self.old) ≤ (D.state disk.old).size }
        ensures { IsCommitted geometry stands marks room changed self.old self.new result (D.state disk.old) (D.state disk.new) };

    /// The first of three parts of a commit, where something has changed: writes the nodes and the counts, and has a cache below write what it keeps. So what
    /// `go_on` flushes can be brought to the device before it. False where nothing has changed, and `commit` is one flush; then nothing was done.
    ///
    /// Nothing changes in memory before the last part. So look-ups in between tell what they told before. After an `Err` of a part, what was begun is what a
    /// commit that failed leaves.
    fn begin<D: Disk>(&mut self, disk: &mut D) -> Result<bool, Fault>
        requires disk { sectors_of_image (geometry self.old) ≤ (D.state disk.old).size }
        ensures begun { IfOk result (λ is_midway. is_midway ≡ true → (changed self.old ≡ true) × midway self.old false (D.state disk.old) (D.state disk.new) × IsBetween geometry stands tells self.old (D.state disk.old) (D.state disk.new)) }
        ensures none { IfOk result (λ is_midway. is_midway ≡ false → (changed self.old ≡ false) × (D.state disk.new ≡ D.state disk.old)) }
        ensures failed { OnErr result (IsCommitted geometry stands marks room changed self.old self.new result (D.state disk.old) (D.state disk.new)) }
        ensures unchanged { self.new ≡ self.old };

    /// The second part: flushes what `begin` wrote, and writes the superblock.
    fn go_on<D: Disk>(&mut self, disk: &mut D) -> Result<(), Fault>
        requires disk { sectors_of_image (geometry self.old) ≤ (D.state disk.old).size }
        ensures named { OnOk result ((before : DiskState) → midway self.old false before (D.state disk.old)
            → midway self.old true before (D.state disk.new) × IsBetween geometry stands tells self.old before (D.state disk.new)) }
        ensures failed { OnErr result ((before : DiskState) → midway self.old false before (D.state disk.old)
            → IsCommitted geometry stands marks room changed self.old self.new result before (D.state disk.new)) }
        ensures same_disk { IsSameDisk (D.state disk.old) (D.state disk.new) }
        ensures unchanged { self.new ≡ self.old };

    /// The last part: flushes the superblock. With it the commit was made that was begun.
    fn end<D: Disk>(&mut self, disk: &mut D) -> Result<(), Fault>
        ensures committed { (before : DiskState) → midway self.old true before (D.state disk.old)
            → IsCommitted geometry stands marks room changed self.old self.new result before (D.state disk.new) }
        ensures same_disk { IsSameDisk (D.state disk.old) (D.state disk.new) }
        ensures sizes { geometry self.new ≡ geometry self.old };

    /// What stands is within the pool's sizes, and room is what it leaves with the last commit.
    ghost within: { (metadata : Self) (disk : DiskState) (now kept : Contents) → stands metadata disk now kept
        → AreWithin (geometry metadata) (room metadata) (marks metadata) now kept };

    /// The pool names no more metadata blocks than its volumes may use.
    ghost bounded: { (metadata : Self) (disk : DiskState) (now kept : Contents) → stands metadata disk now kept → AreBounded (geometry metadata) now };

    /// However what stands is told, it names as many metadata blocks.
    ghost counted: { (metadata : Self) (disk : DiskState) (now kept next last : Contents) → stands metadata disk now kept → stands metadata disk next last
        → next.meta_used ≡ now.meta_used };

    /// However what stands is told, it is the same volumes now.
    ghost one: { (metadata : Self) (disk : DiskState) (now kept next last : Contents) → stands metadata disk now kept → stands metadata disk next last
        → next.volumes ≡ now.volumes };

    /// Where they stand, look-ups tell what stands.
    ghost told: { (metadata : Self) (disk : DiskState) (now kept : Contents) → stands metadata disk now kept → tells metadata disk now kept };

    /// Look-ups tell so of an honest disk alone.
    ghost told_honest: { (metadata : Self) (disk : DiskState) (now kept : Contents) → tells metadata disk now kept → IsTrue disk.is_honest };

    /// The disk is honest, and a stop leaves what the last commit kept.
    ghost honest: { (metadata : Self) (disk : DiskState) (now kept : Contents) → stands metadata disk now kept → IsTrue disk.is_honest };

    ghost left: { (metadata : Self) (disk : DiskState) (now kept : Contents) → stands metadata disk now kept → Leaves (HoldsContents (geometry metadata) kept) disk.cells };

    /// The trees of what stands are on the disk as it is read, with as many metadata blocks in use as have a true count.
    ghost trees: { (metadata : Self) (disk : DiskState) (now kept : Contents) (p : PlainPool) → stands metadata disk now kept
        → HasContents (geometry metadata) now (seen disk.cells) p → HasTrees (seen disk.cells) p };

    /// Where the metadata blocks stay, the metadata stand as they did.
    ghost frame: { (metadata : Self) (old new : DiskState) (now kept : Contents) → KeepsMetadata (geometry metadata) old new
        → stands metadata old now kept → stands metadata new now kept };
}
