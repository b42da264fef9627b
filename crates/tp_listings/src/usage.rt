//! What each volume has of a pool.
ghost use Rattle.std.specs.Prelude.{◌≡◌, ◌<◌, ◌≤◌, ◌++◌, ◌∷◌, [], ℕ, false, IfErr, IfOk, IfSome, OnOk, length, slice_index};
ghost use Rattle.tp_model.specs.Pool.{PlainPool};
ghost use Rattle.tp_model.specs.Calls.{is_failed};
ghost use Rattle.tp_listings.specs.Listings.{IsListOfVolumes};
ghost use Rattle.tp_listings.specs.Looks.{LooksOver, ShowsStill};
ghost use Rattle.tp_listings.specs.Owned.{IsLooked, IsNext, IsSurvey, usage_at};
ghost use Rattle.tp_listings.specs.Refusing.{IsRefusalOfAll};

use crate::extent::Usage;
use crate::owners::{FIRST, PLACES, count_owners, mark_volume, new_table, next_of};
use std::alloc::Global;
use tp_model::{DevId, Refusal, Walked};

/// Ids of volumes are below this one.
const VOLUMES: u32 = 16_777_216;

/// The volume with the least id from `from` on, if there is one, whose data blocks are marked with the number `mine`. What it has alone is not counted
/// yet.
///
/// Refused by `Failed`, `NoSuchDevice`, `Fault` or `Damaged`.
fn next_usage<V: Walked>(
    pool: &mut V,
    from: u32,
    mine: u32,
    owners: &mut [u32],
) -> Result<Option<Usage>, Refusal>
    requires from { from < 16777216 }
    requires places { 1048576 ≤ length owners.old }
    ensures looked { IsLooked V.view pool.old pool.new result }
    ensures refused { IfErr result (λ reason. (s : PlainPool) → V.view.shows pool.old s → IsRefusalOfAll s reason) }
    ensures next { IfOk result (λ found. (s : PlainPool) → V.view.shows pool.old s → IsNext s from mine found owners.old owners.new) }
    ensures blank { IfOk result (λ found. IfSome found (λ u. (u.id < 16777216) × (u.exclusive ≡ 0))) }
{
    let Some(id) = pool.next_id(DevId::new(from))? else {
        return Ok(None);
    };
    let blocks = pool.volume_blocks(id)?;
    let mapped = mark_volume(pool, id, mine, owners)?;
    Ok(Some(Usage {
        id: id.number(),
        blocks,
        mapped,
        exclusive: 0,
    }))
}

/// Puts a volume behind the others: `Memory` where there is none.
fn push_usage(usages: &mut Vec<Usage>, usage: Usage) -> Result<(), Refusal>
    ensures pushed { OnOk result (usages.new.items ≡ usages.old.items ++ usage ∷ []) }
    ensures refused { IfErr result (λ reason. reason ≡ Refusal.Memory) }
{
    match usages.push(usage) {
        Ok(()) => Ok(()),
        Err(_) => Err(Refusal::Memory),
    }
}

/// All volumes in the order of their ids, whose data blocks are marked in the table. What they have alone is not counted yet.
///
/// Refused by `Failed`, `Fault`, `Damaged`, or by `Memory` where there is none for the list.
pub(crate) fn survey<V: Walked>(
    alloc: Global,
    pool: &mut V,
    owners: &mut [u32],
) -> Result<Vec<Usage>, Refusal>
    requires places { 1048576 ≤ length owners.old }
    requires blank { (place : ℕ) → slice_index owners.old place ≡ 0 }
    ensures looked { IsLooked V.view pool.old pool.new result }
    ensures refused { IfErr result (λ reason. (s : PlainPool) → V.view.shows pool.old s → IsRefusalOfAll s reason) }
    ensures survey { IfOk result (λ usages. (s : PlainPool) → V.view.shows pool.old s → IsSurvey s 16777216 usages.items owners.new) }
    ensures works { IfOk result (λ usages. (s : PlainPool) → V.view.shows pool.old s → is_failed s.mode ≡ false) }
    ensures blank { IfOk result (λ usages. (j : ℕ) → j < length usages.items → (usage_at usages.items j).exclusive ≡ 0) }
{
    let mut usages = Vec::new(alloc);
    let mut from = 0;
    while from < VOLUMES {
        let mine = usages.len() as u32 + FIRST;
        let Some(usage) = next_usage(pool, from, mine, owners)? else {
            return Ok(usages);
        };
        push_usage(&mut usages, usage)?;
        from = next_of(from, usage.id);
    }
    Ok(usages)
}

/// What each volume has, in the order of their ids. It writes nothing.
///
/// Refused by `Failed`, `Fault`, `Damaged`, or by `Memory` where there is none for it: 4 MiB, and 16 bytes for each volume.
pub fn usages<V: Walked>(alloc: Global, pool: &mut V) -> Result<Vec<Usage>, Refusal>
    ensures looks { LooksOver V.view pool.old pool.new result }
    ensures still { ShowsStill V.view pool.old pool.new }
    ensures refused { IfErr result (λ reason. (s : PlainPool) → V.view.shows pool.old s → IsRefusalOfAll s reason) }
    ensures exact { IfOk result (λ usages. (s : PlainPool) → V.view.shows pool.old s → IsListOfVolumes s usages.items) }
{
    let mut owners = new_table(alloc, PLACES)?;
    let mut usages = survey(alloc, pool, &mut owners)?;
    count_owners(&owners, &mut usages);
    Ok(usages)
}
