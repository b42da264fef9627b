//! Devices of a list, in the order of their ids.

ghost use Rattle.std.specs.Prelude.{◌≡◌, ◌≢◌, ◌+◌, ◌≤◌, ◌<◌, List, MatchOption, IfErr, IfSome, None, OnOk, Some, ℕ, false, true, length, slice_index_or, vec_capacity, ◌++◌, take};
ghost use Rattle.tp_sharing.specs.Volumes.{BlockSlot, device_of, mapped_of, resized, size_of, slot_of, with_device, with_place, with_slot, without_device, without_place, without_slot};
ghost use Rattle.tp_list_mapping.specs.declared.device.Device.{Device};
ghost use Rattle.tp_mapping.specs.Mapping.{IsLonger, from_block, slots_of};
ghost use Rattle.tp_mapping.specs.Next.{first_device};
ghost use Rattle.tp_mapping.specs.Runs.{without_run};
ghost use Rattle.tp_mapping.specs.Slots.{last_block};
ghost use Rattle.tp_list_mapping.specs.List.{HasChanged, IsAsRoomy, IsFullAt, IsRoomy, LacksAt, device_rank, free_below, is_taken, volume, volumes};
ghost use Rattle.tp_mapping.specs.List.{has_another, is_used, is_used_elsewhere, used_below};

use crate::slots::{add_all, has_other, has_place, last, place_of, put, take_out};
use tp_counts::StoreError;
use tp_model::{DevId, Pb, Slot, Slots, Vb};

/// A device and its slots, in the order of their virtual blocks.
#[derive(Drop)]
pub(crate) struct Device {
    pub(crate) id: DevId,
    // The size that it tells, 0 for the pool's own.
    pub(crate) size: u32,
    pub(crate) slots: Vec<Slot>,
}

/// How many devices stand before the first one with this id or a greater one.
pub(crate) fn rank(devices: &[Device], id: DevId) -> usize
    ensures value { result ≡ device_rank id (volumes devices.now) }
    ensures inside { result ≤ length devices.now }
{
    for i in 0..devices.len() {
        if devices[i].id.number() >= id.number() {
            return i;
        }
    }
    devices.len()
}

/// The place of a device, if it is there.
pub(crate) fn find(devices: &[Device], id: DevId) -> Option<usize>
    ensures inside { MatchOption result (device_of id (volumes devices.now) ≡ None) (λ at. at < length devices.now) }
    ensures found { MatchOption result (device_of id (volumes devices.now) ≡ None) (λ at. (d : Device) → (slice_index_or devices.now at d).id ≡ id) }
    ensures first { MatchOption result (device_of id (volumes devices.now) ≡ None) (λ at. (j : ℕ) (d : Device) → j < at → (slice_index_or devices.now j d).id ≢ id) }
    ensures slots { MatchOption result (device_of id (volumes devices.now) ≡ None)
        (λ at. (d : Device) → device_of id (volumes devices.now) ≡ Some (slice_index_or devices.now at d).slots.items) }
{
    for i in 0..devices.len() {
        if devices[i].id == id {
            return Some(i);
        }
    }
    None
}

/// The first id that is this one or more, if there is one.
pub(crate) fn next_of(devices: &[Device], from: DevId) -> Option<DevId>
    ensures { result ≡ first_device from (volumes devices.now) }
{
    for i in 0..devices.len() {
        if devices[i].id.number() >= from.number() {
            return Some(devices[i].id);
        }
    }
    None
}

/// Whether a slot has this data block.
pub(crate) fn is_used(devices: &[Device], place: Pb) -> bool
    ensures { result ≡ is_used place (volumes devices.now) }
{
    for i in 0..devices.len() {
        if has_place(&devices[i].slots, place) {
            return true;
        }
    }
    false
}

/// Whether a slot of the device but that of this virtual block has this data block.
fn has_another(device: &Device, id: DevId, block: Vb, place: Pb) -> bool
    ensures { result ≡ has_another id block place (volume device.now) }
{
    if device.id == id {
        return has_other(&device.slots, block, place);
    }
    has_place(&device.slots, place)
}

/// Whether another slot than this one has its data block.
pub(crate) fn is_used_elsewhere(devices: &[Device], id: DevId, block: Vb, place: Pb) -> bool
    ensures { result ≡ is_used_elsewhere id block place (volumes devices.now) }
{
    for i in 0..devices.len() {
        if has_another(&devices[i], id, block, place) {
            return true;
        }
    }
    false
}

/// The data block of a virtual block of a device, if it has one.
pub(crate) fn slot_of(devices: &[Device], id: DevId, block: Vb) -> Option<Pb>
    ensures { result ≡ slot_of id block (volumes devices.now) }
{
    match find(devices, id) {
        Some(at) => place_of(&devices[at].slots, block),
        None => None,
    }
}

/// How many slots a device has, if it is there.
pub(crate) fn mapped_of(devices: &[Device], id: DevId) -> Option<usize>
    ensures { result ≡ mapped_of id (volumes devices.now) }
{
    match find(devices, id) {
        Some(at) => Some(devices[at].slots.len()),
        None => None,
    }
}

/// The size that a device tells, if it is there.
pub(crate) fn size_of(devices: &[Device], id: DevId) -> Option<u32>
    ensures { result ≡ size_of id (volumes devices.now) }
{
    match find(devices, id) {
        Some(at) => Some(devices[at].size),
        None => None,
    }
}

/// Has a device tell another size. `Damaged` exactly where it is not there.
pub(crate) fn resize(devices: &mut Vec<Device>, id: DevId, size: u32) -> Result<(), StoreError>
    ensures value { OnOk result (volumes devices.new.items ≡ resized id size (volumes devices.old.items)) }
    ensures room { OnOk result (IsAsRoomy devices.old.items devices.new.items) }
    ensures err { IfErr result (λ error. (error ≡ StoreError.Damaged) × (device_of id (volumes devices.old.items) ≡ None)) }
    ensures capacity { vec_capacity devices.new ≡ vec_capacity devices.old }
{
    match find(devices, id) {
        Some(at) => {
            devices[at].size = size;
            Ok(())
        }
        None => Err(StoreError::Damaged),
    }
}

/// Whether a data block is marked.
pub(crate) fn is_marked(marks: &[bool], place: Pb) -> bool
    ensures { result ≡ slice_index_or marks.now place false }
{
    let at = place.number() as usize;
    if at >= marks.len() {
        return false;
    }
    marks[at]
}

/// Whether a slot has this data block, or it is marked.
fn is_taken(devices: &[Device], marks: &[bool], place: Pb) -> bool
    ensures { result ≡ is_taken (volumes devices.now) marks.now place }
{
    if is_marked(marks, place) {
        return true;
    }
    is_used(devices, place)
}

/// The least of so many data blocks that is not taken, if there is one.
pub(crate) fn find_free(devices: &[Device], marks: &[bool], data_blocks: u32) -> Option<Pb>
    requires { data_blocks ≤ 1048576 }
    ensures inside { IfSome result (λ place. place < data_blocks) }
    ensures free { MatchOption result ((other : ℕ) → other < data_blocks → is_taken (volumes devices.now) marks.now other ≡ true)
        (λ place. is_taken (volumes devices.now) marks.now place ≡ false) }
    ensures least { IfSome result (λ place. (other : ℕ) → other < place → is_taken (volumes devices.now) marks.now other ≡ true) }
{
    for number in 0..data_blocks {
        let place = Pb::new(number);
        if !is_taken(devices, marks, place) {
            return Some(place);
        }
    }
    None
}

/// How many of so many data blocks slots have.
pub(crate) fn count_used(devices: &[Device], data_blocks: u32) -> u64
    requires { data_blocks ≤ 1048576 }
    ensures value { result ≡ used_below data_blocks (volumes devices.now) }
    ensures bound { result ≤ data_blocks }
{
    let mut count = 0;
    for number in 0..data_blocks {
        if is_used(devices, Pb::new(number)) {
            count += 1;
        }
    }
    count
}

/// How many of so many data blocks are not taken.
pub(crate) fn count_free(devices: &[Device], marks: &[bool], data_blocks: u32) -> u64
    requires { data_blocks ≤ 1048576 }
    ensures value { result ≡ free_below data_blocks (volumes devices.now) marks.now }
    ensures bound { result ≤ data_blocks }
{
    let mut count = 0;
    for number in 0..data_blocks {
        if !is_taken(devices, marks, Pb::new(number)) {
            count += 1;
        }
    }
    count
}

/// Puts a slot in its place in a device, instead of the one of its virtual block. `Damaged` where that takes memory.
fn put_at(devices: &mut Vec<Device>, at: usize, slot: Slot) -> Result<(), StoreError>
    requires { at < length devices.old.items }
    ensures value { OnOk result (HasChanged (with_place slot) at devices.old.items devices.new.items) }
    ensures err { IfErr result (λ error. (error ≡ StoreError.Damaged) × IsFullAt at devices.old.items) }
    ensures capacity { vec_capacity devices.new ≡ vec_capacity devices.old }
{
    put(&mut devices[at].slots, slot)
}

/// Takes the slot of a virtual block out of a device. `Damaged` exactly where there is none.
fn take_at(devices: &mut Vec<Device>, at: usize, block: Vb) -> Result<(), StoreError>
    requires { at < length devices.old.items }
    ensures value { OnOk result (HasChanged (without_place block) at devices.old.items devices.new.items) }
    ensures err { IfErr result (λ error. (error ≡ StoreError.Damaged) × LacksAt at block devices.old.items) }
    ensures capacity { vec_capacity devices.new ≡ vec_capacity devices.old }
{
    take_out(&mut devices[at].slots, block)
}

/// Puts a slot in its place in a device, instead of the one of its virtual block. `Damaged` where there is no such device,
/// or that takes memory.
pub(crate) fn put_slot(devices: &mut Vec<Device>, id: DevId, slot: Slot) -> Result<(), StoreError>
    ensures value { OnOk result (volumes devices.new.items ≡ with_slot id slot (volumes devices.old.items)) }
    ensures room { OnOk result (IsAsRoomy devices.old.items devices.new.items) }
    ensures err { IfErr result (λ error. (error ≡ StoreError.Damaged) × ((n : ℕ) (slots : List BlockSlot) → IsRoomy n devices.old.items → device_of id (volumes devices.old.items) ≡ Some slots
        → n ≤ length slots)) }
    ensures capacity { vec_capacity devices.new ≡ vec_capacity devices.old }
{
    match find(devices, id) {
        Some(at) => put_at(devices, at, slot),
        None => Err(StoreError::Damaged),
    }
}

/// Takes the slot of a virtual block out of a device. `Damaged` exactly where there is none.
fn take_slot(devices: &mut Vec<Device>, id: DevId, block: Vb) -> Result<(), StoreError>
    ensures value { OnOk result (volumes devices.new.items ≡ without_slot id block (volumes devices.old.items)) }
    ensures room { OnOk result (IsAsRoomy devices.old.items devices.new.items) }
    ensures err { IfErr result (λ error. (error ≡ StoreError.Damaged) × (slot_of id block (volumes devices.old.items) ≡ None)) }
    ensures capacity { vec_capacity devices.new ≡ vec_capacity devices.old }
{
    match find(devices, id) {
        Some(at) => take_at(devices, at, block),
        None => Err(StoreError::Damaged),
    }
}

/// Takes the slot of a virtual block out of a device, where there is one.
fn drop_slot(devices: &mut Vec<Device>, id: DevId, block: Vb)
    ensures value { volumes devices.new.items ≡ without_slot id block (volumes devices.old.items) }
    ensures room { IsAsRoomy devices.old.items devices.new.items }
    ensures capacity { vec_capacity devices.new ≡ vec_capacity devices.old }
{
    if slot_of(devices, id, block).is_none() {
        return;
    }
    let _ = take_slot(devices, id, block);
}

/// Takes the slots of a run of virtual blocks out of a device, where there are any.
pub(crate) fn drop_slots(devices: &mut Vec<Device>, id: DevId, first: Vb, count: u32)
    requires { first + count ≤ 16777216 }
    ensures value { volumes devices.new.items ≡ without_run id first count (volumes devices.old.items) }
    ensures room { IsAsRoomy devices.old.items devices.new.items }
    ensures capacity { vec_capacity devices.new ≡ vec_capacity devices.old }
{
    for i in 0..count {
        drop_slot(devices, id, Vb::new(first.number() + i));
    }
}

/// Adds a device in its place, of an id that no device has. `Damaged` where that takes memory.
pub(crate) fn add(devices: &mut Vec<Device>, device: Device) -> Result<(), StoreError>
    ensures value { OnOk result (device_of device.id (volumes devices.old.items) ≡ None → volumes devices.new.items ≡ with_device (volume device) (volumes devices.old.items)) }
    ensures sized { OnOk result (length devices.new.items ≡ length devices.old.items + 1) }
    ensures room { OnOk result ((n : ℕ) → IsRoomy n devices.old.items → n ≤ vec_capacity device.slots → IsRoomy n devices.new.items) }
    ensures err { IfErr result (λ error. (error ≡ StoreError.Damaged) × (vec_capacity devices.old ≤ length devices.old.items)) }
    ensures capacity { vec_capacity devices.old ≤ vec_capacity devices.new }
{
    let at = rank(devices, device.id);
    match devices.insert(at, device) {
        Ok(()) => Ok(()),
        Err(_) => Err(StoreError::Damaged),
    }
}

/// Takes a device out. `None` exactly where it is not there; then nothing changes.
pub(crate) fn remove(devices: &mut Vec<Device>, id: DevId) -> Option<Device>
    ensures value { MatchOption result (device_of id (volumes devices.old.items) ≡ None) (λ device. volumes devices.new.items ≡ without_device id (volumes devices.old.items)) }
    ensures sized { IfSome result (λ device. length devices.new.items + 1 ≡ length devices.old.items) }
    ensures room { IfSome result (λ device. (n : ℕ) → IsRoomy n devices.old.items → (n ≤ vec_capacity device.slots) × IsRoomy n devices.new.items) }
    ensures none { result ≡ None → devices.new ≡ devices.old }
    ensures capacity { vec_capacity devices.new ≡ vec_capacity devices.old }
{
    match find(devices, id) {
        Some(at) => Some(devices.remove(at)),
        None => None,
    }
}

/// The greatest virtual block of a device's slots, if there is one.
pub(crate) fn highest_of(devices: &[Device], id: DevId) -> Option<Vb>
    ensures { result ≡ last_block (slots_of id (volumes devices.now)) }
{
    match find(devices, id) {
        Some(at) => last(&devices[at].slots),
        None => None,
    }
}

/// Adds the slots of a device with virtual blocks from `from` on, until there is no room; none where it is not there.
pub(crate) fn walk_of(devices: &[Device], id: DevId, from: Vb, out: &mut Slots)
    requires { length out.old.items ≤ 252 }
    ensures value { out.new.items ≡ take 252 (out.old.items ++ from_block from (slots_of id (volumes devices.now))) }
    ensures longer { IsLonger out.old.items out.new.items }
{
    match find(devices, id) {
        Some(at) => add_all(out, &devices[at].slots, from),
        None => add_all(out, &[], from),
    }
}

/// Makes a device one with this id, and the size and the slots of another one. `Damaged` where that is not there, or it takes memory.
pub(crate) fn copy_of(
    devices: &[Device],
    origin: DevId,
    id: DevId,
    device: &mut Device,
) -> Result<(), StoreError>
    ensures id { OnOk result (device.new.id ≡ id) }
    ensures value { OnOk result (device_of origin (volumes devices.now) ≡ Some device.new.slots.items) }
    ensures size { OnOk result (size_of origin (volumes devices.now) ≡ Some device.new.size) }
    ensures err { IfErr result (λ error. (error ≡ StoreError.Damaged)
        × ((slots : List BlockSlot) → device_of origin (volumes devices.now) ≡ Some slots → vec_capacity device.old.slots < length slots)) }
    ensures capacity { vec_capacity device.old.slots ≤ vec_capacity device.new.slots }
{
    let Some(at) = find(devices, origin) else {
        return Err(StoreError::Damaged);
    };
    device.id = id;
    device.size = devices[at].size;
    device.slots.clear();
    match device.slots.extend_from_slice(&devices[at].slots) {
        Ok(()) => Ok(()),
        Err(_) => Err(StoreError::Damaged),
    }
}

/// Marks each data block that a slot has, and no other one.
pub(crate) fn mark(devices: &[Device], marks: &mut Vec<bool>)
    requires { length marks.old.items ≤ 1048576 }
    ensures sized { length marks.new.items ≡ length marks.old.items }
    ensures value { (place : ℕ) → place < length marks.old.items → slice_index_or marks.new.items place false ≡ is_used place (volumes devices.now) }
{
    for place in 0..marks.len() {
        marks[place] = is_used(devices, Pb::new(place as u32));
    }
}
