//! The slots of one device, in the order of their virtual blocks.

ghost use Rattle.std.specs.Prelude.{◌≡◌, ◌≢◌, ◌≤◌, ◌<◌, IfErr, IsTrue, MatchOption, None, OnOk, length, not, slice_index_or, vec_capacity, ◌++◌, ◌∷◌, [], take};
ghost use Rattle.std.specs.List.{list_any, remove};
ghost use Rattle.tp_sharing.specs.Volumes.{BlockSlot, place_in, with_place, without_place};
ghost use Rattle.tp_mapping.specs.Mapping.{IsLonger, from_block};
ghost use Rattle.tp_mapping.specs.Slots.{last_block, has_other, has_place};
ghost use Rattle.tp_list_mapping.specs.Slots.{rank_in};

use tp_counts::StoreError;
use tp_model::{MOST_SLOTS, Pb, Slot, Slots, Vb};

/// The data block of a virtual block, if it has one.
pub(crate) fn place_of(slots: &[Slot], block: Vb) -> Option<Pb>
    ensures { result ≡ place_in block slots.now }
{
    for i in 0..slots.len() {
        let slot = slots[i];
        if slot.block() == block {
            return Some(slot.place());
        }
    }
    None
}

/// How many slots stand before the first one with this virtual block or a greater one.
fn rank(slots: &[Slot], block: Vb) -> usize
    ensures value { result ≡ rank_in block slots.now }
    ensures inside { result ≤ length slots.now }
{
    for i in 0..slots.len() {
        if slots[i].block().number() >= block.number() {
            return i;
        }
    }
    slots.len()
}

/// Whether the slot at a place has this virtual block.
fn is_at(slots: &[Slot], at: usize, block: Vb) -> bool
    ensures inside { IsTrue result → at < length slots.now }
    ensures yes { IsTrue result → (x : BlockSlot) → (slice_index_or slots.now at x).block ≡ block }
    ensures no { IsTrue (not result) → at < length slots.now → (x : BlockSlot) → (slice_index_or slots.now at x).block ≢ block }
{
    if at >= slots.len() {
        return false;
    }
    slots[at].block() == block
}

/// Puts a slot in its place, instead of the one of its virtual block. `Damaged` only where that takes memory.
pub(crate) fn put(slots: &mut Vec<Slot>, slot: Slot) -> Result<(), StoreError>
    ensures value { OnOk result (slots.new.items ≡ with_place slot slots.old.items) }
    ensures err { IfErr result (λ error. (error ≡ StoreError.Damaged) × (vec_capacity slots.old ≤ length slots.old.items)) }
    ensures capacity { vec_capacity slots.old ≤ vec_capacity slots.new }
{
    let at = rank(slots, slot.block());
    if is_at(slots, at, slot.block()) {
        slots[at] = slot;
        return Ok(());
    }
    match slots.insert(at, slot) {
        Ok(()) => Ok(()),
        Err(_) => Err(StoreError::Damaged),
    }
}

/// The place of a virtual block, if there is a slot of it.
fn find(slots: &[Slot], block: Vb) -> Option<usize>
    ensures inside { MatchOption result (place_in block slots.now ≡ None) (λ at. at < length slots.now) }
    ensures without { MatchOption result (place_in block slots.now ≡ None) (λ at. remove slots.now at ≡ without_place block slots.now) }
{
    for i in 0..slots.len() {
        if slots[i].block() == block {
            return Some(i);
        }
    }
    None
}

/// Takes out the slot of a virtual block. `Damaged` exactly where there is none.
pub(crate) fn take_out(slots: &mut Vec<Slot>, block: Vb) -> Result<(), StoreError>
    ensures value { OnOk result (slots.new.items ≡ without_place block slots.old.items) }
    ensures err { IfErr result (λ error. (error ≡ StoreError.Damaged) × (place_in block slots.old.items ≡ None)) }
    ensures capacity { vec_capacity slots.new ≡ vec_capacity slots.old }
{
    match find(slots, block) {
        Some(at) => {
            let _ = slots.remove(at);
            Ok(())
        }
        None => Err(StoreError::Damaged),
    }
}

/// Whether a slot has this data block.
pub(crate) fn has_place(slots: &[Slot], place: Pb) -> bool
    ensures { result ≡ has_place place slots.now }
{
    for i in 0..slots.len() {
        if slots[i].place() == place {
            return true;
        }
    }
    false
}

/// Whether a slot of another virtual block has this data block.
pub(crate) fn has_other(slots: &[Slot], block: Vb, place: Pb) -> bool
    ensures { result ≡ has_other block place slots.now }
{
    for i in 0..slots.len() {
        let slot = slots[i];
        if slot.place() == place && slot.block() != block {
            return true;
        }
    }
    false
}

/// The virtual block of the last slot, if there is one.
pub(crate) fn last(slots: &[Slot]) -> Option<Vb>
    ensures { result ≡ last_block slots.now }
{
    let len = slots.len();
    if len == 0 {
        return None;
    }
    Some(slots[len - 1].block())
}

/// Adds a slot, where its virtual block is `from` or a greater one and there is room.
fn add(out: &mut Slots, slot: Slot, from: Vb)
    ensures value { out.new.items ≡ take 252 (out.old.items ++ from_block from (slot ∷ [])) }
    ensures longer { IsLonger out.old.items out.new.items }
{
    let len = out.len();
    if slot.block().number() < from.number() {
        return;
    }
    if len < MOST_SLOTS {
        out.push(slot);
    }
}

/// Adds the slots with virtual blocks from `from` on, until there is no room.
pub(crate) fn add_all(out: &mut Slots, slots: &[Slot], from: Vb)
    requires { length out.old.items ≤ 252 }
    ensures value { out.new.items ≡ take 252 (out.old.items ++ from_block from slots.now) }
    ensures longer { IsLonger out.old.items out.new.items }
{
    for i in 0..slots.len() {
        add(out, slots[i], from);
    }
}
