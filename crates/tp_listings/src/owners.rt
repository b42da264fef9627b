//! Who has which data block: a table over all data blocks, in which the slots of all volumes are marked.
ghost use Rattle.std.specs.Prelude.{◌≡◌, ◌+◌, ◌<◌, ◌≤◌, ◌++◌, ◌==◌, ℕ, List, IfErr, IfOk, if◌then◌else◌, None, min, length, set, slice_index};
ghost use Rattle.std.specs.List.{count_by, range_with_len};
ghost use Rattle.std.specs.FinMap.{entries};
ghost use Rattle.tp_model.specs.Pool.{PlainPool, slot_at, volume_slots};
ghost use Rattle.tp_model.specs.Calls.{piece_from, slots_from};
ghost use Rattle.tp_model.specs.Slots.{listed};
ghost use Rattle.tp_listings.specs.Refusing.{IsRefusal};
ghost use Rattle.tp_listings.specs.Owned.{AreBelow, IsLooked, IsMarked, marked, owned, usage_at};

use crate::extent::Usage;
use crate::looking::MOST_VOLUME;
use std::alloc::Global;
use tp_model::{DevId, MOST_SLOTS, Pb, Refusal, Slot, Slots, Vb, Walked};

/// As many data blocks as a pool can have.
pub(crate) const PLACES: usize = 1_048_576;

/// Nobody has the data block.
pub(crate) const NOBODY: u32 = 0;

/// Several volumes have the data block.
const SEVERAL: u32 = 1;

/// The number of the first volume of a list, which has the data block alone. That of the next one is one more.
pub(crate) const FIRST: u32 = 2;

/// A table of so many data blocks, none of which anybody has: `Memory` where there is none for it. It takes 4 bytes for each.
pub(crate) fn new_table(alloc: Global, places: usize) -> Result<Vec<u32>, Refusal>
    ensures long { IfOk result (λ owners. length owners.items ≡ places) }
    ensures blank { IfOk result (λ owners. (place : ℕ) → slice_index owners.items place ≡ 0) }
    ensures refused { IfErr result (λ reason. reason ≡ Refusal.Memory) }
{
    match Vec::from_elem(alloc, NOBODY, places) {
        Ok(owners) => Ok(owners),
        Err(_) => Err(Refusal::Memory),
    }
}

/// The number of a data block behind a slot of the volume with the number `mine`.
fn owned(owner: u32, mine: u32) -> u32
    ensures { result ≡ owned owner mine }
{
    if owner == NOBODY || owner == mine {
        mine
    } else {
        SEVERAL
    }
}

/// Marks a data block that the volume with the number `mine` has.
fn take(owners: &mut [u32], place: Pb, mine: u32)
    requires { 1048576 ≤ length owners.old }
    ensures { owners.new ≡ set owners.old place (owned (slice_index owners.old place) mine) }
{
    let place = place.number() as usize;
    owners[place] = owned(owners[place], mine);
}

/// Marks the data blocks of some slots of the volume with the number `mine`.
fn mark(owners: &mut [u32], slots: &[Slot], mine: u32)
    requires { 1048576 ≤ length owners.old }
    ensures marks { owners.new ≡ marked mine (listed slots.now) owners.old }
    ensures below { AreBelow 1048576 (listed slots.now) }
{
    for i in 0..slots.len() {
        take(owners, slots[i].place(), mine);
    }
}

/// The number behind one that is told from `from` on. A pool that is not as it says may tell one that is before it.
pub(crate) fn next_of(from: u32, number: u32) -> u32
    requires from { from < 16777216 }
    requires number { number < 16777216 }
    ensures further { from < result }
    ensures most { result ≤ 16777216 }
    ensures next { from ≤ number → result ≡ number + 1 }
{
    if number < from {
        return from + 1;
    }
    number + 1
}

/// The block from which the next piece of a volume's slots is asked for, behind this piece from `from` on; 2^24 where there are no more.
fn behind(from: u32, slots: &[Slot]) -> u32
    requires { from < 16777216 }
    ensures further { from < result }
    ensures most { result ≤ 16777216 }
    ensures rest { (s : PlainPool) (id : ℕ) → ((block : ℕ) → 16777216 ≤ block → slot_at s id block ≡ None) → listed slots.now ≡ piece_from from (entries (volume_slots s id))
        → slots_from from (entries (volume_slots s id)) ≡ listed slots.now ++ slots_from result (entries (volume_slots s id)) }
{
    if slots.len() < MOST_SLOTS {
        return MOST_VOLUME;
    }
    let last = slots[MOST_SLOTS - 1].block().number();
    next_of(from, last)
}

/// Marks the data blocks of a volume with the number `mine`, and tells how many slots it has.
///
/// Refused by `Failed`, `NoSuchDevice`, `Fault` or `Damaged`.
pub(crate) fn mark_volume<V: Walked>(
    pool: &mut V,
    id: DevId,
    mine: u32,
    owners: &mut [u32],
) -> Result<u32, Refusal>
    requires { 1048576 ≤ length owners.old }
    ensures looked { IsLooked V.view pool.old pool.new result }
    ensures refused { IfErr result (λ reason. (s : PlainPool) → V.view.shows pool.old s → IsRefusal s id reason) }
    ensures marks { IfOk result (λ mapped. (s : PlainPool) → V.view.shows pool.old s → IsMarked (entries (volume_slots s id)) mine mapped owners.old owners.new) }
{
    let mut slots = Slots::new();
    let mut from = 0;
    let mut mapped = 0;
    while from < MOST_VOLUME {
        pool.walk(id, Vb::new(from), &mut slots)?;
        mark(owners, &slots, mine);
        let listed = slots.len() as u32;
        mapped += listed;
        from = behind(from, &slots);
    }
    Ok(mapped)
}

/// Counts a data block for the volume that has it alone, if there is one.
fn count_owner(owner: u32, usages: &mut [Usage])
    ensures { (j : ℕ) → j < length usages.old
        → usage_at usages.new j ≡ record (usage_at usages.old j) { exclusive = if owner == j + 2 then min ((usage_at usages.old j).exclusive + 1) 4294967295 else (usage_at usages.old j).exclusive } }
{
    if owner < FIRST {
        return;
    }
    let place = (owner - FIRST) as usize;
    if place >= usages.len() {
        return;
    }
    usages[place].exclusive = usages[place].exclusive.saturating_add(1);
}

/// Counts for each volume the data blocks that it has alone.
pub(crate) fn count_owners(owners: &[u32], usages: &mut [Usage])
    requires most { length owners.now ≤ 1048576 }
    requires blank { (j : ℕ) → j < length usages.old → (usage_at usages.old j).exclusive ≡ 0 }
    ensures { (j : ℕ) → j < length usages.old
        → usage_at usages.new j ≡ record (usage_at usages.old j) { exclusive = count_by (λ place. slice_index owners.now place == j + 2) (range_with_len 0 (length owners.now)) } }
{
    for i in 0..owners.len() {
        count_owner(owners[i], usages);
    }
}
