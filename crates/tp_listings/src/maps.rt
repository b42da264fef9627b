//! Which blocks of a volume are mapped.
ghost use Rattle.std.specs.Prelude.{◌≡◌, ◌<◌, ◌≤◌, IfErr, IfOk, IsSome};
ghost use Rattle.tp_model.specs.Pool.{PlainPool, slot_at};
ghost use Rattle.tp_listings.specs.Listings.{AreRunsOf, IsMap};
ghost use Rattle.tp_listings.specs.Looks.{LooksOver, ShowsStill};
ghost use Rattle.tp_listings.specs.Refusing.{IsRefusal};
ghost use Rattle.tp_listings.specs.Seeking.{Reads};

use crate::extent::Extent;
use crate::extents::push_block;
use crate::looking::{Cursor, MOST_VOLUME};
use std::alloc::Global;
use tp_model::{DevId, Refusal, Walked};

/// Lists the first mapped block from `from` on, if there is one. It gives the block that is to be looked at next.
fn list_next<V: Walked>(
    pool: &mut V,
    volume: &mut Cursor,
    extents: &mut Vec<Extent>,
    from: u32,
) -> Result<u32, Refusal>
    requires { from < 16777216 }
    ensures looks { LooksOver V.view pool.old pool.new result }
    ensures still { ShowsStill V.view pool.old pool.new }
    ensures refused { IfErr result (λ reason. (s : PlainPool) → V.view.shows pool.old s → IsRefusal s volume.old.id reason) }
    ensures exact { IfOk result (λ next. (s : PlainPool) → V.view.shows pool.old s → Reads s volume.old.id from volume.old.slots.items volume.old.at
        → AreRunsOf extents.old.items (λ block. (block < from) × IsSome (slot_at s volume.old.id block))
        → Reads s volume.old.id next volume.new.slots.items volume.new.at × AreRunsOf extents.new.items (λ block. (block < next) × IsSome (slot_at s volume.old.id block))) }
    ensures further { IfOk result (λ next. (from < next) × (next ≤ 16777216)) }
    ensures id { volume.new.id ≡ volume.old.id }
{
    let Some(slot) = volume.first_from(pool, from)? else {
        return Ok(MOST_VOLUME);
    };
    let block = slot.block().number();
    push_block(extents, block)?;
    Ok(block + 1)
}

/// The blocks of a volume that are mapped, as runs in their order. It writes nothing.
///
/// Refused by `Failed`, `NoSuchDevice`, `Fault`, `Damaged`, or by `Memory` where there is none for the list.
pub fn map<V: Walked>(alloc: Global, pool: &mut V, id: DevId) -> Result<Vec<Extent>, Refusal>
    ensures looks { LooksOver V.view pool.old pool.new result }
    ensures still { ShowsStill V.view pool.old pool.new }
    ensures refused { IfErr result (λ reason. (s : PlainPool) → V.view.shows pool.old s → IsRefusal s id reason) }
    ensures exact { IfOk result (λ extents. (s : PlainPool) → V.view.shows pool.old s → IsMap s id extents.items) }
{
    let mut extents = Vec::new(alloc);
    let mut volume = Cursor::begin(pool, id)?;
    let mut from = 0;
    while from < MOST_VOLUME {
        from = list_next(pool, &mut volume, &mut extents, from)?;
    }
    Ok(extents)
}
