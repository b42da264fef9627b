//! What a pool is asked for a page.

ghost use Rattle.std.specs.Prelude.{◌≡◌, ◌≤◌, List};
ghost use Rattle.tp_model.specs.Slots.{listed};
ghost use Rattle.tp_pages.specs.Pages.{AreMade, AsksBoth, AsksDelta, AsksMap, AsksSize, IsPaged, Question, Walks, told_by, unit_of};

use crate::text::{PageLine, put_delta, put_map, put_sizes};
use tp_model::{DevId, Geometry, Refusal, Slot, Slots, Vb, Walked};

/// The bytes of a block.
fn unit_of(geometry: Geometry) -> u64
    ensures value { result ≡ unit_of geometry }
    ensures most { result ≤ 1048576 }
{
    geometry.block_sectors() as u64 * 512
}

/// Writes the line of a page of the blocks of a volume, from `from` on, that are mapped: up to seven `OFFSET+LENGTH`, in bytes, and `next BLOCK`, or `end`
/// where there are no more. It is told by one walk, which writes nothing. Behind an `Err` the line means nothing.
///
/// Refused by `Failed`, `NoSuchDevice`, `Fault` or `Damaged`.
pub fn map_line<V: Walked>(
    pool: &mut V,
    id: DevId,
    from: Vb,
    line: &mut PageLine,
) -> Result<(), Refusal>
    ensures { (qs : List Question) × AreMade V.view pool.old qs pool.new
        × AsksMap (unit_of (V.view.outline pool.old).geometry) id from qs (told_by result line.new.bytes) }
{
    let unit = unit_of(pool.geometry());
    let mut slots = Slots::new();
    match pool.walk(id, from, &mut slots) {
        Ok(()) => {
            put_map(line, unit, from, &slots);
            Ok(())
        }
        Err(reason) => Err(reason),
    }
}

/// Writes the size of a volume and that of a block, in bytes. It writes nothing to the pool. Behind an `Err` the line means nothing.
///
/// Refused by `Failed`, `NoSuchDevice`, `Fault` or `Damaged`.
pub fn size_line<V: Walked>(pool: &mut V, id: DevId, line: &mut PageLine) -> Result<(), Refusal>
    ensures { (qs : List Question) × AreMade V.view pool.old qs pool.new
        × AsksSize (unit_of (V.view.outline pool.old).geometry) id qs (told_by result line.new.bytes) }
{
    let unit = unit_of(pool.geometry());
    match pool.volume_blocks(id) {
        Ok(blocks) => {
            put_sizes(line, unit, blocks);
            Ok(())
        }
        Err(reason) => Err(reason),
    }
}

/// The last walk of a page of a delta, and its line.
fn walk_new<V: Walked>(
    pool: &mut V,
    unit: u64,
    blocks: u32,
    old: &[Slot],
    new: DevId,
    from: Vb,
    line: &mut PageLine,
) -> Result<(), Refusal>
    requires unit { unit ≤ 1048576 }
    requires most { blocks ≤ 16777216 }
    ensures { (qs : List Question) × AreMade V.view pool.old qs pool.new
        × Walks new from (λ other rest told. IsPaged unit from blocks (listed old.now) other rest told) qs (told_by result line.new.bytes) }
{
    let mut slots = Slots::new();
    match pool.walk(new, from, &mut slots) {
        Ok(()) => {
            put_delta(line, unit, from, blocks, old, &slots);
            Ok(())
        }
        Err(reason) => Err(reason),
    }
}

/// Both walks of a page of a delta, and its line.
fn walk_both<V: Walked>(
    pool: &mut V,
    unit: u64,
    blocks: u32,
    old: DevId,
    new: DevId,
    from: Vb,
    line: &mut PageLine,
) -> Result<(), Refusal>
    requires unit { unit ≤ 1048576 }
    requires most { blocks ≤ 16777216 }
    ensures { (qs : List Question) × AreMade V.view pool.old qs pool.new
        × AsksBoth unit old new from blocks qs (told_by result line.new.bytes) }
{
    let mut slots = Slots::new();
    match pool.walk(old, from, &mut slots) {
        Ok(()) => walk_new(pool, unit, blocks, &slots, new, from, line),
        Err(reason) => Err(reason),
    }
}

/// Writes the line of a page of the blocks of `new`, from `from` on, in which it may differ from `old`, as [`map_line`] does. It is told by the size of
/// `new` and a walk over each. Behind an `Err` the line means nothing.
///
/// Refused by `Failed`, `NoSuchDevice`, `Fault` or `Damaged`.
pub fn delta_line<V: Walked>(
    pool: &mut V,
    old: DevId,
    new: DevId,
    from: Vb,
    line: &mut PageLine,
) -> Result<(), Refusal>
    ensures { (qs : List Question) × AreMade V.view pool.old qs pool.new
        × AsksDelta (unit_of (V.view.outline pool.old).geometry) old new from qs (told_by result line.new.bytes) }
{
    let unit = unit_of(pool.geometry());
    match pool.volume_blocks(new) {
        Ok(blocks) => walk_both(pool, unit, blocks, old, new, from, line),
        Err(reason) => Err(reason),
    }
}
