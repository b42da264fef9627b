//! Where one volume may differ from another.
ghost use Rattle.std.specs.Prelude.{◌≡◌, ◌≢◌, ◌⊎◌, ◌<◌, ◌≤◌, IfErr, IfOk, IsTrue, OnOk, not};
ghost use Rattle.tp_model.specs.Pool.{PlainPool, slot_at};
ghost use Rattle.tp_listings.specs.Listings.{AreRunsOf, IsDelta};
ghost use Rattle.tp_listings.specs.Looks.{LooksOver, ShowsStill};
ghost use Rattle.tp_listings.specs.Refusing.{IsRefusal};
ghost use Rattle.tp_listings.specs.Seeking.{IsPushed, Reads, block_of, told};

use crate::extent::Extent;
use crate::extents::push_block;
use crate::looking::{Cursor, MOST_VOLUME};
use std::alloc::Global;
use tp_model::{DevId, Refusal, Slot, Walked};

/// The block of a slot, or the number behind all blocks where there is none.
pub(crate) fn block_of(found: &Option<Slot>) -> u32
    ensures { result ≡ block_of found.now }
{
    match *found {
        Some(slot) => slot.block().number(),
        None => MOST_VOLUME,
    }
}

/// The data block at a block, where this is the first slot at it or behind it.
pub(crate) fn place_at(found: &Option<Slot>, block: u32) -> Option<u32>
    ensures { result ≡ told found.now block }
{
    let Some(slot) = *found else {
        return None;
    };
    if slot.block().number() == block {
        return Some(slot.place().number());
    }
    None
}

/// Whether two blocks have not the same data block.
pub(crate) fn differ(one: Option<u32>, other: Option<u32>) -> bool
    ensures differ { IsTrue result → other ≢ one }
    ensures same { IsTrue (not result) → other ≡ one }
{
    one != other
}

/// Puts a block behind the others where it is wanted: `Memory` where there is none.
fn push_wanted(extents: &mut Vec<Extent>, block: u32, is_wanted: bool) -> Result<(), Refusal>
    requires { block < 16777216 }
    ensures wanted { OnOk result (IsTrue is_wanted → IsPushed block extents.old.items extents.new.items) }
    ensures others { OnOk result (IsTrue (not is_wanted) → extents.new.items ≡ extents.old.items) }
    ensures refused { IfErr result (λ reason. reason ≡ Refusal.Memory) }
{
    if !is_wanted {
        return Ok(());
    }
    push_block(extents, block)
}

/// Lists the first block from `from` on that one of two volumes has, where they differ in it. It gives the block that is to be looked at next, `blocks` at most.
fn list_next<V: Walked>(
    pool: &mut V,
    one: &mut Cursor,
    other: &mut Cursor,
    extents: &mut Vec<Extent>,
    from: u32,
    blocks: u32,
) -> Result<u32, Refusal>
    requires from { from < blocks }
    requires most { blocks ≤ 16777216 }
    ensures looks { LooksOver V.view pool.old pool.new result }
    ensures still { ShowsStill V.view pool.old pool.new }
    ensures refused { IfErr result (λ reason. (s : PlainPool) → V.view.shows pool.old s → IsRefusal s one.old.id reason ⊎ IsRefusal s other.old.id reason) }
    ensures exact { IfOk result (λ next. (s : PlainPool) → V.view.shows pool.old s → Reads s one.old.id from one.old.slots.items one.old.at → Reads s other.old.id from other.old.slots.items other.old.at
        → AreRunsOf extents.old.items (λ block. (block < from) × (slot_at s other.old.id block ≢ slot_at s one.old.id block))
        → Reads s one.old.id next one.new.slots.items one.new.at × Reads s other.old.id next other.new.slots.items other.new.at
        × AreRunsOf extents.new.items (λ block. (block < next) × (slot_at s other.old.id block ≢ slot_at s one.old.id block))) }
    ensures further { IfOk result (λ next. (from < next) × (next ≤ blocks)) }
    ensures one { one.new.id ≡ one.old.id }
    ensures other { other.new.id ≡ other.old.id }
{
    let slot = one.first_from(pool, from)?;
    let beside = other.first_from(pool, from)?;
    let block = block_of(&slot).min(block_of(&beside));
    if block >= blocks {
        return Ok(blocks);
    }
    push_wanted(
        extents,
        block,
        differ(place_at(&slot, block), place_at(&beside, block)),
    )?;
    Ok(block + 1)
}

/// The blocks of `new` in which it may differ from `old`, where the two have not the same data block, as runs in their order. It writes nothing.
///
/// Refused by `Failed`, `NoSuchDevice`, `Fault`, `Damaged`, or by `Memory` where there is none for the list.
pub fn delta<V: Walked>(
    alloc: Global,
    pool: &mut V,
    old: DevId,
    new: DevId,
) -> Result<Vec<Extent>, Refusal>
    ensures looks { LooksOver V.view pool.old pool.new result }
    ensures still { ShowsStill V.view pool.old pool.new }
    ensures refused { IfErr result (λ reason. (s : PlainPool) → V.view.shows pool.old s → IsRefusal s old reason ⊎ IsRefusal s new reason) }
    ensures exact { IfOk result (λ extents. (s : PlainPool) → V.view.shows pool.old s → IsDelta s old new extents.items) }
{
    let mut extents = Vec::new(alloc);
    let blocks = pool.volume_blocks(new)?;
    let mut one = Cursor::begin(pool, old)?;
    let mut other = Cursor::begin(pool, new)?;
    let mut from = 0;
    while from < blocks {
        from = list_next(pool, &mut one, &mut other, &mut extents, from, blocks)?;
    }
    Ok(extents)
}
