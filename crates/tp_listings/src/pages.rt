//! Pages of listings: as much of them as one walk over each volume tells, and as seven runs say.
ghost use Rattle.std.specs.Prelude.{◌≡◌, ◌<◌, ◌≤◌, ◌+◌, ◌++◌, ◌∷◌, [], IfSome, IsTrue, None, length, not};
ghost use Rattle.std.specs.Ordering.{nat_cmp};
ghost use Rattle.std.specs.FinMap.{find};
ghost use Rattle.tp_model.specs.Slots.{listed};
ghost use Rattle.tp_listings.specs.Pages.{AreOrdered, Differ, IsPage, far_as, reach};
ghost use Rattle.tp_listings.specs.Paging.{AreAlike, IsFirstOf, IsFullBefore};
ghost use Rattle.tp_listings.specs.Seeking.{IsPushed, IsUpTo};

use crate::deltas::{block_of, differ, place_at};
use crate::extent::Extent;
use crate::extents::goes_on;
use crate::looking::{MOST_VOLUME, skip, slot_of};
use arrayvec::ArrayVec;
use tp_model::{MOST_SLOTS, Slot, Vb};

/// As many runs as a page has at most.
pub const MOST_RUNS: usize = 7;

/// The runs of a page.
pub type Runs = ArrayVec<Extent, MOST_RUNS>;

/// A page of a listing.
#[derive(Drop)]
pub struct Page {
    /// The runs that it tells.
    pub extents: Runs,
    /// The block before which all are told.
    pub end: u32,
}

/// The block before which a walk lists all slots that it was asked for.
fn reach_of(slots: &[Slot]) -> u32
    ensures value { result ≡ reach (listed slots.now) }
    ensures most { result ≤ 16777216 }
{
    match slot_of(slots, MOST_SLOTS - 1) {
        Some(slot) => slot.block().number() + 1,
        None => MOST_VOLUME,
    }
}

/// The block before which two walks tell all, `most` at most.
fn limit_of(most: u32, old: &[Slot], new: &[Slot]) -> u32
    ensures value { result ≡ far_as most (listed old.now) (listed new.now) }
    ensures most { result ≤ most }
{
    most.min(reach_of(old).min(reach_of(new)))
}

/// The first of some slots whose block is not before `from`, if there is one.
fn first_slot(slots: &[Slot], from: u32) -> Option<Slot>
    ensures first { AreOrdered (listed slots.now) → IsFirstOf (listed slots.now) from result }
    ensures later { IsUpTo result from }
{
    slot_of(slots, skip(slots, 0, from))
}

/// A block that one of two volumes has, and whether they differ in it.
#[derive(Clone, Copy, Debug)]
struct Seen {
    block: u32,
    is_other: bool,
}

/// Looks at the first block from `from` on that one of two volumes has, or at the number behind all blocks.
fn look_at(old: &[Slot], new: &[Slot], from: u32) -> Seen
    requires { from < 16777216 }
    ensures onward { from ≤ result.block }
    ensures alike { AreOrdered (listed old.now) → AreOrdered (listed new.now) → AreAlike (listed old.now) (listed new.now) from result.block }
    ensures differ { IsTrue result.is_other → AreOrdered (listed old.now) → AreOrdered (listed new.now) → Differ (listed old.now) (listed new.now) result.block }
    ensures same { IsTrue (not result.is_other) → AreOrdered (listed old.now) → AreOrdered (listed new.now)
        → find nat_cmp result.block (listed new.now) ≡ find nat_cmp result.block (listed old.now) }
{
    let slot = first_slot(old, from);
    let beside = first_slot(new, from);
    let block = block_of(&slot).min(block_of(&beside));
    let is_other = differ(place_at(&slot, block), place_at(&beside, block));
    Seen { block, is_other }
}

/// The first block from `from` on and before `limit` in which they differ, if there is one.
fn next_differing(old: &[Slot], new: &[Slot], from: u32, limit: u32) -> Option<u32>
    requires { limit ≤ 16777216 }
    ensures found { IfSome result (λ block. (from ≤ block) × (block < limit)) }
    ensures first { IfSome result (λ block. AreOrdered (listed old.now) → AreOrdered (listed new.now)
        → AreAlike (listed old.now) (listed new.now) from block × Differ (listed old.now) (listed new.now) block) }
    ensures none { result ≡ None → AreOrdered (listed old.now) → AreOrdered (listed new.now) → AreAlike (listed old.now) (listed new.now) from limit }
{
    let mut at = from;
    while at < limit {
        let found = look_at(old, new, at);
        let block = found.block;
        if block >= limit {
            return None;
        }
        if found.is_other {
            return Some(block);
        }
        at = block + 1;
    }
    None
}

/// Puts a run behind the others.
fn push_run(runs: &mut Runs, run: Extent)
    requires { length runs.old.items < 7 }
    ensures pushed { runs.new.items ≡ runs.old.items ++ run ∷ [] }
    ensures len { length runs.new.items ≡ length runs.old.items + 1 }
{
    runs.push(run);
}

/// Whether there is no room for one run more.
fn is_full(runs: &Runs) -> bool
    ensures full { IsTrue result → 7 ≤ length runs.now.items }
    ensures room { IsTrue (not result) → length runs.now.items < 7 }
{
    runs.len() >= MOST_RUNS
}

/// Takes off the last run, if there is one.
fn take_last(runs: &mut Runs) -> Option<Extent>
    ensures some { IfSome result (λ run. runs.old.items ≡ runs.new.items ++ run ∷ []) }
    ensures len { IfSome result (λ run. length runs.new.items + 1 ≡ length runs.old.items) }
    ensures none { result ≡ None → (runs.old.items ≡ []) × (runs.new.items ≡ []) }
{
    runs.pop()
}

/// Puts a block behind the others, which goes on with the last run where it is the next one. False where it begins an eighth run, and then nothing changes.
fn add_block(runs: &mut Runs, block: u32) -> bool
    requires block { block < 16777216 }
    requires few { length runs.old.items ≤ 7 }
    ensures pushed { IsTrue result → IsPushed block runs.old.items runs.new.items }
    ensures full { IsTrue (not result) → IsFullBefore block runs.old.items runs.new.items }
    ensures few { length runs.new.items ≤ 7 }
{
    let alone = Extent {
        first: block,
        blocks: 1,
    };
    let Some(last) = take_last(runs) else {
        push_run(runs, alone);
        return true;
    };
    if goes_on(last, block) {
        let longer = Extent {
            first: last.first,
            blocks: last.blocks + 1,
        };
        push_run(runs, longer);
        return true;
    }
    push_run(runs, last);
    if is_full(runs) {
        return false;
    }
    push_run(runs, alone);
    true
}

/// A page of the blocks from `from` on, and before `most`, in which a volume may differ from another, by the slots that a walk over each lists from there. Of no slots of
/// the old one it is a page of the blocks of the new one that are mapped. It takes no memory.
pub fn page_of(old: &[Slot], new: &[Slot], from: Vb, most: u32) -> Page
    requires { most ≤ 16777216 }
    ensures page { AreOrdered (listed old.now) → AreOrdered (listed new.now) → IsPage (listed old.now) (listed new.now) from most result.extents.items result.end }
    ensures few { length result.extents.items ≤ 7 }
{
    let limit = limit_of(most, old, new);
    let mut runs = Runs::new();
    let mut at = from.number();
    while at < limit {
        let Some(block) = next_differing(old, new, at, limit) else {
            return Page {
                extents: runs,
                end: limit,
            };
        };
        if !add_block(&mut runs, block) {
            return Page {
                extents: runs,
                end: block,
            };
        }
        at = block + 1;
    }
    Page {
        extents: runs,
        end: limit,
    }
}
