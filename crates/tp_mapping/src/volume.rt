//! Volumes' trees beside the device tree.

ghost use Rattle.std.specs.Prelude.{◌≡◌, ◌+◌, ◌<◌, ◌≤◌, ◌^◌, ◌-◌, ◌⊎◌, ◌∷◌, ◌++◌, ℕ, List, [], Err, IfErr, IfOk, IfSome, IsSome, IsTrue, None, OnOk, Some, length, not};
ghost use Rattle.tp_model.specs.Geometry.{Geometry, sectors_of_image};
ghost use Rattle.tp_model.specs.Told.{IsToldSize};
ghost use Rattle.tp_counts.specs.LookUps.{IsLookedUp};
ghost use Rattle.tp_counts.specs.StoreErrors.{is_fault};
ghost use Rattle.tp_model.specs.Disk.{DiskState, after_read};
ghost use Rattle.tp_layout.specs.Node.{FitsEntry, is_long};
ghost use Rattle.tp_layout.specs.declared.kind.TreeKind.TheVariants.{Device, Mapping};
ghost use Rattle.tp_layout.specs.Entries.{found, with_entry, without_key};
ghost use Rattle.tp_layout.specs.declared.entry.Entry.{Entry};
ghost use Rattle.tp_sharing.specs.Forest.{content};
ghost use Rattle.tp_sharing.specs.Volumes.{BlockSlot, Volumes, device_of, slot_of};
ghost use Rattle.tp_refs.specs.Store.{Store, count_of, with_count};
ghost use Rattle.tp_stored.specs.Commit.{held_by};
ghost use Rattle.tp_tm.specs.Tm.{free_metadata};
ghost use Rattle.tp_tm.specs.Holds.{Holds};
ghost use Rattle.tp_btree.specs.Roots.{Passed};
ghost use Rattle.tp_btree.specs.Inserts.{Ran};
ghost use Rattle.tp_mapping.specs.Held.{HasVolume, HoldBeside, HoldTrees, HoldVolume, HoldsRoot, HoldsSlots, Slotted, TellsVolume, entry_of, in_use, slot_at};

use tp_btree::{block_of, empty, insert, lookup, remove, replace, share};
use tp_counts::StoreError;
use tp_disk::Disk;
use tp_layout::{Entry, TreeKind};
use tp_model::{DevId, Mb, Pb, Vb};
use tp_tm::Tm;

/// A volume's tree: its root, how many of its virtual blocks have a data block, and the size that its record tells, 0 for the pool's own.
#[derive(Clone, Copy)]
pub(crate) struct Volume {
    pub(crate) root: Mb,
    pub(crate) mapped: u32,
    pub(crate) size: u32,
}

/// A volume that an entry of the device tree names, and whether a node on the path to that entry is named more than once: then another root
/// leads to the volume too.
#[derive(Clone, Copy)]
pub(crate) struct There {
    pub(crate) volume: Volume,
    pub(crate) is_shared: bool,
}

/// More virtual blocks than this are in no volume: they have 24 bits.
pub(crate) const MOST_VOLUME: u64 = 16_777_216;

/// The size that a record tells. `Damaged` where no volume may have it.
fn size_in(tm: &Tm, size: u64) -> Result<u32, StoreError>
    ensures value { IfOk result (λ told. told ≡ size) }
    ensures told { IfOk result (λ told. IsToldSize tm.now.geometry told) }
    ensures err { IfErr result (λ error. (error ≡ StoreError.Damaged) × (IsToldSize tm.now.geometry size → ⊥)) }
{
    if tm.geometry().may_tell(size) {
        Ok(size as u32)
    } else {
        Err(StoreError::Damaged)
    }
}

/// The volume that an entry of the device tree names. `Damaged` where it names none.
pub(crate) fn volume_in(tm: &Tm, entry: Entry) -> Result<Volume, StoreError>
    ensures value { IfOk result (λ volume. (volume.root ≡ entry.value) × (volume.mapped ≡ entry.mapped) × (volume.size ≡ entry.size)) }
    ensures inside { IfOk result (λ volume. volume.root < tm.now.geometry.metadata_blocks) }
    ensures few { IfOk result (λ volume. volume.mapped ≤ 2 ^ 24) }
    ensures told { IfOk result (λ volume. IsToldSize tm.now.geometry volume.size) }
    ensures err { IfErr result (λ error. (error ≡ StoreError.Damaged) × ((entry.value < tm.now.geometry.metadata_blocks) → entry.mapped ≤ 2 ^ 24 → IsToldSize tm.now.geometry entry.size → ⊥)) }
{
    let root = block_of(tm, entry.value)?;
    if entry.mapped > MOST_VOLUME {
        return Err(StoreError::Damaged);
    }
    let size = size_in(tm, entry.size)?;
    Ok(Volume {
        root,
        mapped: entry.mapped as u32,
        size,
    })
}

/// What the device tree below a root, which may be that of a held copy, tells of a device. `None` where there is no such device.
pub(crate) fn volume_at<D: Disk>(
    tm: &Tm,
    disk: &mut D,
    root: Mb,
    device: DevId,
) -> Result<Option<There>, StoreError>
    requires disk { sectors_of_image tm.now.geometry ≤ (D.state disk.old).size }
    requires inside { root < tm.now.geometry.metadata_blocks }
    ensures looked { IsLookedUp (λ P. IsTrue (D.state disk.old).is_honest → (g : Geometry) (refs : List ℕ) (s : Store) → HoldsRoot g tm.now (D.state disk.old) refs root s
        → P refs s) (D.state disk.old) (D.state disk.new) result (λ answer refs s. TellsVolume device s root answer) }
    ensures inside { IfOk result (λ answer. IfSome answer (λ there. there.volume.root < tm.now.geometry.metadata_blocks)) }
    ensures few { IfOk result (λ answer. IfSome answer (λ there. there.volume.mapped ≤ 2 ^ 24)) }
    ensures told { IfOk result (λ answer. IfSome answer (λ there. IsToldSize tm.now.geometry there.volume.size)) }
{
    let key = device.number() as u64;
    let Some(found) = lookup(tm, disk, TreeKind::Device, root, key)? else {
        return Ok(None);
    };
    let volume = volume_in(tm, found.entry)?;
    Ok(Some(There {
        volume,
        is_shared: found.is_shared,
    }))
}

/// The volume of a device. `Damaged` where there is no such device.
pub(crate) fn known_at<D: Disk>(
    tm: &Tm,
    disk: &mut D,
    root: Mb,
    device: DevId,
) -> Result<Volume, StoreError>
    requires disk { sectors_of_image tm.now.geometry ≤ (D.state disk.old).size }
    requires inside { root < tm.now.geometry.metadata_blocks }
    ensures told { IfOk result (λ volume. IsTrue (D.state disk.old).is_honest → (g : Geometry) (more : List ℕ) (now : Volumes) → HoldTrees g tm.now (D.state disk.old) root more now
        → HasVolume g tm.now (D.state disk.new) root more now device volume) }
    ensures inside { IfOk result (λ volume. volume.root < tm.now.geometry.metadata_blocks) }
    ensures few { IfOk result (λ volume. volume.mapped ≤ 2 ^ 24) }
    ensures damaged { result ≡ Err StoreError.Damaged → IsTrue (D.state disk.old).is_honest → (g : Geometry) (more : List ℕ) (now : Volumes) → HoldTrees g tm.now (D.state disk.old) root more now
        → IsSome (device_of device now) → ⊥ }
    ensures state { D.state disk.new ≡ after_read (not (is_fault result)) (D.state disk.old) }
{
    match volume_at(tm, disk, root, device)? {
        Some(there) => Ok(there.volume),
        None => Err(StoreError::Damaged),
    }
}

/// The entry of a virtual block.
fn slot_entry(block: Vb, place: Pb) -> Entry
    ensures value { result ≡ record { key = block; value = place; mapped = 0; size = 0 } }
    ensures fits { FitsEntry (is_long Mapping 0) result }
{
    Entry {
        key: block.number() as u64,
        value: place.number() as u64,
        mapped: 0,
        size: 0,
    }
}

/// The data block of this number, or `Damaged` where there is none.
pub(crate) fn data_block_of(tm: &Tm, number: u64) -> Result<Pb, StoreError>
    ensures inside { IfOk result (λ place. (place ≡ number) × (place < tm.now.geometry.data_blocks)) }
    ensures err { IfErr result (λ error. (error ≡ StoreError.Damaged) × (tm.now.geometry.data_blocks ≤ number)) }
{
    if number >= tm.geometry().data_blocks() as u64 {
        return Err(StoreError::Damaged);
    }
    Ok(Pb::new(number as u32))
}

/// A volume's tree without slots.
pub(crate) fn new_volume<D: Disk>(tm: &mut Tm, disk: &mut D) -> Result<Volume, StoreError>
    requires disk { sectors_of_image tm.old.geometry ≤ (D.state disk.old).size }
    requires room { 0 < free_metadata tm.old }
    ensures made { IfOk result (λ volume. (g : Geometry) (root : ℕ) (more : List ℕ) (now : Volumes) → HoldTrees g tm.old (D.state disk.old) root more now
        → HoldBeside g tm.new (D.state disk.new) root more volume [] now) }
    ensures few { IfOk result (λ volume. volume.mapped ≤ 2 ^ 24) }
    ensures size { IfOk result (λ volume. volume.size ≡ 0) }
    ensures only { IfErr result (λ error. error ≡ StoreError.Fault) }
    ensures ran { Ran 1 (is_fault result) tm.old tm.new (D.state disk.old) (D.state disk.new) }
{
    match empty(tm, disk, TreeKind::Mapping) {
        Ok(root) => Ok(Volume {
            root,
            mapped: 0,
            size: 0,
        }),
        Err(_) => Err(StoreError::Fault),
    }
}

/// The same tree, with another size.
pub(crate) fn with_size(volume: Volume, size: u32) -> Volume
    ensures { result ≡ record { root = volume.root; mapped = volume.mapped; size = size } }
{
    let Volume { root, mapped, .. } = volume;
    Volume { root, mapped, size }
}

/// One reference more to the root of a volume of the device tree.
fn name_root(tm: &mut Tm, block: Mb) -> Result<(), StoreError>
    requires inside { block < tm.old.geometry.metadata_blocks }
    ensures named { OnOk result ((disk : DiskState) (g : Geometry) (root : ℕ) (more : List ℕ) (now : Volumes) (device mapped size : ℕ) → length more ≤ 8
        → (h : HasVolume g tm.old disk root more now device (record { root = block; mapped = mapped; size = size })) → Passed h.trees.store tm.new disk [] (block ∷ (more ++ held_by g root tm.old.held_root))) }
    ensures damaged { result ≡ Err StoreError.Damaged → (disk : DiskState) (g : Geometry) (root : ℕ) (more : List ℕ) (now : Volumes) (device mapped size : ℕ) → length more ≤ 8
        → HasVolume g tm.old disk root more now device (record { root = block; mapped = mapped; size = size }) → ⊥ }
    ensures used { OnOk result ((disk : DiskState) (g : Geometry) (root : ℕ) (more : List ℕ) (now : Volumes) (device mapped size : ℕ)
        → HasVolume g tm.old disk root more now device (record { root = block; mapped = mapped; size = size }) → in_use tm.new ≤ in_use tm.old) }
    ensures only { IfErr result (λ error. error ≡ StoreError.Damaged) }
    ensures ran { (disk : DiskState) → Ran 1 (is_fault result) tm.old tm.new disk disk }
{
    let _ = tm.geometry();
    share(tm, block)
}

/// Gives up a reference to the data block of this number.
fn release_number(tm: &mut Tm, number: u64) -> Result<(), StoreError>
    ensures released { OnOk result ((disk : DiskState) (opens held : List ℕ) (s : Store) → Holds tm.old disk opens ((tm.old.geometry.metadata_blocks + number) ∷ held) s
        → Holds tm.new disk opens held (with_count s (tm.old.geometry.metadata_blocks + number) (count_of s (tm.old.geometry.metadata_blocks + number) - 1))) }
    ensures damaged { result ≡ Err StoreError.Damaged → (disk : DiskState) (opens held : List ℕ) (s : Store) → Holds tm.old disk opens ((tm.old.geometry.metadata_blocks + number) ∷ held) s → ⊥ }
    ensures only { IfErr result (λ error. error ≡ StoreError.Damaged) }
    ensures ran { (disk : DiskState) → Ran 0 (is_fault result) tm.old tm.new disk disk }
{
    let _ = tm.geometry();
    let place = data_block_of(tm, number)?;
    tm.release_data(place)
}

/// The tree of a volume of the device tree, once more.
pub(crate) fn same_volume(tm: &mut Tm, volume: Volume) -> Result<(), StoreError>
    requires inside { volume.root < tm.old.geometry.metadata_blocks }
    ensures shared { OnOk result ((disk : DiskState) (g : Geometry) (root : ℕ) (now : Volumes) (device : ℕ) (slots : List BlockSlot) → HasVolume g tm.old disk root [] now device volume
        → device_of device now ≡ Some slots → HoldVolume g tm.new disk root volume slots now) }
    ensures damaged { result ≡ Err StoreError.Damaged → (disk : DiskState) (g : Geometry) (root : ℕ) (now : Volumes) (device : ℕ) → HasVolume g tm.old disk root [] now device volume → ⊥ }
    ensures used { OnOk result ((disk : DiskState) (g : Geometry) (root : ℕ) (now : Volumes) (device : ℕ) → HasVolume g tm.old disk root [] now device volume → in_use tm.new ≤ in_use tm.old) }
    ensures only { IfErr result (λ error. error ≡ StoreError.Damaged) }
    ensures ran { (disk : DiskState) → Ran 1 (is_fault result) tm.old tm.new disk disk }
{
    name_root(tm, volume.root)
}

/// Gives a virtual block of a volume another data block than it has, to which a reference is held. The tree is changed
/// where it stands, and the reference to the data block before is given up.
fn exchange_slot<D: Disk>(
    tm: &mut Tm,
    disk: &mut D,
    volume: Volume,
    block: Vb,
    place: Pb,
) -> Result<Volume, StoreError>
    requires disk { sectors_of_image tm.old.geometry ≤ (D.state disk.old).size }
    requires inside { volume.root < tm.old.geometry.metadata_blocks }
    requires few { volume.mapped ≤ 2 ^ 24 }
    requires room { 4 ≤ free_metadata tm.old }
    ensures changed { IfOk result (λ changed. IsTrue (D.state disk.old).is_honest → (opens held : List ℕ) (s : Store) (top : ℕ)
        → HoldsSlots tm.old (D.state disk.old) opens ((tm.old.geometry.metadata_blocks + place) ∷ held) s top volume → block < top → (old : Entry) → found block (content 1 s volume.root) ≡ Some old
        → Slotted s tm.new (D.state disk.new) opens held top changed (with_entry (slot_at tm.old.geometry.metadata_blocks block place) (content 1 s volume.root))) }
    ensures damaged { result ≡ Err StoreError.Damaged → IsTrue (D.state disk.old).is_honest → (opens held : List ℕ) (s : Store) (top : ℕ)
        → HoldsSlots tm.old (D.state disk.old) opens ((tm.old.geometry.metadata_blocks + place) ∷ held) s top volume → block < top → (old : Entry) → found block (content 1 s volume.root) ≡ Some old → ⊥ }
    ensures size { IfOk result (λ changed. changed.size ≡ volume.size) }
    ensures ran { Ran 4 (is_fault result) tm.old tm.new (D.state disk.old) (D.state disk.new) }
{
    let Volume { root, mapped, size } = volume;
    let done = replace(tm, disk, TreeKind::Mapping, root, slot_entry(block, place))?;
    release_number(tm, done.was.value)?;
    Ok(Volume {
        root: done.root,
        mapped,
        size,
    })
}

/// Gives a virtual block of a volume that has none a data block, to which a reference is held. The tree is changed where
/// it stands.
fn insert_slot<D: Disk>(
    tm: &mut Tm,
    disk: &mut D,
    volume: Volume,
    block: Vb,
    place: Pb,
) -> Result<Volume, StoreError>
    requires disk { sectors_of_image tm.old.geometry ≤ (D.state disk.old).size }
    requires inside { volume.root < tm.old.geometry.metadata_blocks }
    requires few { volume.mapped ≤ 2 ^ 24 }
    requires room { 9 ≤ free_metadata tm.old }
    ensures changed { IfOk result (λ changed. IsTrue (D.state disk.old).is_honest → (opens held : List ℕ) (s : Store) (top : ℕ)
        → HoldsSlots tm.old (D.state disk.old) opens ((tm.old.geometry.metadata_blocks + place) ∷ held) s top volume → block < top → found block (content 1 s volume.root) ≡ None
        → Slotted s tm.new (D.state disk.new) opens held top changed (with_entry (slot_at tm.old.geometry.metadata_blocks block place) (content 1 s volume.root))) }
    ensures damaged { result ≡ Err StoreError.Damaged → IsTrue (D.state disk.old).is_honest → (opens held : List ℕ) (s : Store) (top : ℕ)
        → HoldsSlots tm.old (D.state disk.old) opens ((tm.old.geometry.metadata_blocks + place) ∷ held) s top volume → block < top → found block (content 1 s volume.root) ≡ None → ⊥ }
    ensures size { IfOk result (λ changed. changed.size ≡ volume.size) }
    ensures ran { Ran 9 (is_fault result) tm.old tm.new (D.state disk.old) (D.state disk.new) }
{
    let Volume { root, mapped, size } = volume;
    let top = insert(tm, disk, TreeKind::Mapping, root, slot_entry(block, place))?;
    Ok(Volume {
        root: top,
        mapped: mapped + 1,
        size,
    })
}

/// Gives a virtual block of a volume a data block, to which a reference is held. The tree is changed where it stands, and
/// the reference to a data block before is given up.
pub(crate) fn with_slot<D: Disk>(
    tm: &mut Tm,
    disk: &mut D,
    volume: Volume,
    block: Vb,
    place: Pb,
) -> Result<Volume, StoreError>
    requires disk { sectors_of_image tm.old.geometry ≤ (D.state disk.old).size }
    requires inside { volume.root < tm.old.geometry.metadata_blocks }
    requires few { volume.mapped ≤ 2 ^ 24 }
    requires room { 9 ≤ free_metadata tm.old }
    ensures changed { IfOk result (λ changed. IsTrue (D.state disk.old).is_honest → (opens held : List ℕ) (s : Store) (top : ℕ)
        → HoldsSlots tm.old (D.state disk.old) opens ((tm.old.geometry.metadata_blocks + place) ∷ held) s top volume → block < top
        → Slotted s tm.new (D.state disk.new) opens held top changed (with_entry (slot_at tm.old.geometry.metadata_blocks block place) (content 1 s volume.root))) }
    ensures damaged { result ≡ Err StoreError.Damaged → IsTrue (D.state disk.old).is_honest → (opens held : List ℕ) (s : Store) (top : ℕ)
        → HoldsSlots tm.old (D.state disk.old) opens ((tm.old.geometry.metadata_blocks + place) ∷ held) s top volume → block < top → ⊥ }
    ensures size { IfOk result (λ changed. changed.size ≡ volume.size) }
    ensures ran { Ran 9 (is_fault result) tm.old tm.new (D.state disk.old) (D.state disk.new) }
{
    let key = block.number() as u64;
    match lookup(tm, disk, TreeKind::Mapping, volume.root, key)? {
        Some(_) => exchange_slot(tm, disk, volume, block, place),
        None => insert_slot(tm, disk, volume, block, place),
    }
}

/// Takes the data block of a virtual block of a volume. The tree is changed where it stands, and the reference to the
/// data block is given up.
pub(crate) fn without_slot<D: Disk>(
    tm: &mut Tm,
    disk: &mut D,
    volume: Volume,
    block: Vb,
) -> Result<Volume, StoreError>
    requires disk { sectors_of_image tm.old.geometry ≤ (D.state disk.old).size }
    requires inside { volume.root < tm.old.geometry.metadata_blocks }
    requires few { volume.mapped ≤ 2 ^ 24 }
    requires room { 7 ≤ free_metadata tm.old }
    ensures changed { IfOk result (λ changed. IsTrue (D.state disk.old).is_honest → (opens held : List ℕ) (s : Store) (top : ℕ)
        → HoldsSlots tm.old (D.state disk.old) opens held s top volume → (old : Entry) → found block (content 1 s volume.root) ≡ Some old
        → Slotted s tm.new (D.state disk.new) opens held top changed (without_key block (content 1 s volume.root))) }
    ensures inside { IfOk result (λ changed. changed.root < tm.old.geometry.metadata_blocks) }
    ensures mapped { IfOk result (λ changed. changed.mapped ≤ 2 ^ 24) }
    ensures damaged { result ≡ Err StoreError.Damaged → IsTrue (D.state disk.old).is_honest → (opens held : List ℕ) (s : Store) (top : ℕ)
        → HoldsSlots tm.old (D.state disk.old) opens held s top volume → (old : Entry) → found block (content 1 s volume.root) ≡ Some old → ⊥ }
    ensures size { IfOk result (λ changed. changed.size ≡ volume.size) }
    ensures ran { Ran 7 (is_fault result) tm.old tm.new (D.state disk.old) (D.state disk.new) }
{
    let Volume { root, mapped, size } = volume;
    if mapped == 0 {
        return Err(StoreError::Damaged);
    }
    let key = block.number() as u64;
    let done = remove(tm, disk, TreeKind::Mapping, root, key)?;
    release_number(tm, done.was.value)?;
    Ok(Volume {
        root: done.root,
        mapped: mapped - 1,
        size,
    })
}
