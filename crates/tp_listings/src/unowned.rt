//! Which data blocks no volume has.
ghost use Rattle.std.specs.Prelude.{◌≡◌, ◌<◌, ◌≤◌, ℕ, IfErr, IfOk, OnOk, length, slice_index};
ghost use Rattle.tp_model.specs.Pool.{PlainPool};
ghost use Rattle.tp_listings.specs.Listings.{AreRunsOf, IsFreeList};
ghost use Rattle.tp_listings.specs.Looks.{LooksOver, ShowsStill};
ghost use Rattle.tp_listings.specs.Refusing.{IsRefusalOfAll};
ghost use Rattle.tp_listings.specs.Seeking.{IsPushed};

use crate::extent::Extent;
use crate::extents::push_block;
use crate::owners::{NOBODY, PLACES, new_table};
use crate::usage::survey;
use std::alloc::Global;
use tp_model::{Refusal, Walked};

/// Puts a data block behind the others where nobody has it: `Memory` where there is none.
fn list_unowned(extents: &mut Vec<Extent>, owner: u32, place: u32) -> Result<(), Refusal>
    requires { place < 16777216 }
    ensures blank { owner ≡ 0 → OnOk result (IsPushed place extents.old.items extents.new.items) }
    ensures other { (owner ≡ 0 → ⊥) → extents.new.items ≡ extents.old.items }
    ensures refused { IfErr result (λ reason. reason ≡ Refusal.Memory) }
{
    if owner != NOBODY {
        return Ok(());
    }
    push_block(extents, place)
}

/// Those of the first data blocks that nobody has, so many of them looked at, as runs in their order: `Memory` where there is none.
fn blank_runs(alloc: Global, owners: &[u32], blocks: u32) -> Result<Vec<Extent>, Refusal>
    requires inside { blocks ≤ length owners.now }
    requires most { blocks ≤ 1048576 }
    ensures runs { IfOk result (λ extents. AreRunsOf extents.items (λ place. (place < blocks) × (slice_index owners.now place ≡ 0))) }
    ensures refused { IfErr result (λ reason. reason ≡ Refusal.Memory) }
{
    let mut extents = Vec::new(alloc);
    for place in 0..blocks {
        list_unowned(&mut extents, owners[place as usize], place)?;
    }
    Ok(extents)
}

/// The data blocks that no volume has, as runs in their order. Those that a held mapping alone has are among them. It writes nothing.
///
/// Refused by `Failed`, `Fault`, `Damaged`, or by `Memory` where there is none for it: 4 MiB, 16 bytes for each volume, and 8 for each run.
pub fn free<V: Walked>(alloc: Global, pool: &mut V) -> Result<Vec<Extent>, Refusal>
    ensures looks { LooksOver V.view pool.old pool.new result }
    ensures still { ShowsStill V.view pool.old pool.new }
    ensures refused { IfErr result (λ reason. (s : PlainPool) → V.view.shows pool.old s → IsRefusalOfAll s reason) }
    ensures exact { IfOk result (λ extents. (s : PlainPool) → V.view.shows pool.old s → IsFreeList s extents.items) }
{
    let mut owners = new_table(alloc, PLACES)?;
    survey(alloc, pool, &mut owners)?;
    blank_runs(alloc, &owners, pool.geometry().data_blocks())
}
