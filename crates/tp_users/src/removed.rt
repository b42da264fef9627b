//! When the data blocks of a removed volume are used again.
ghost use Rattle.std.specs.Prelude.{◌≡◌, ◌+◌, ◌/◌, ◌%◌, ◌<◌, ◌≤◌, Err, IfOk, OnOk, ℕ, false, length};
ghost use Rattle.tp_model.specs.Geometry.{sectors_of_volume};
ghost use Rattle.tp_model.specs.Pool.{PlainPool, used};
ghost use Rattle.tp_model.specs.Sectors.{sectors_of};
ghost use Rattle.tp_model.specs.Calls.{Answer, Delete, Makes, Write};
ghost use Rattle.tp_model.specs.Clauses.{Called, found_now, found_since};
ghost use Rattle.tp_model.specs.PoolStops.{reopened};
ghost use Rattle.tp_pool.specs.AtMetadata.{shows};
ghost use Rattle.tp_users.specs.Users.{IsWholeOrGone, blocks_touched, own_blocks};

use tp_disk::Disk;
use tp_meta::Metadata;
use tp_model::{DevId, Refusal, Volumes};
use tp_pool::Pool;

/// Removes a volume and writes to another one: what the write is answered. It is refused for want of data blocks only where there are too few with
/// those that the removed volume had for itself, too; and where it is done, the pool shows what the removal and the write behind it make.
///
/// It refuses where the removal is refused.
pub fn removed_blocks_are_used_again<D: Disk, M: Metadata>(
    pool: &mut Pool<D, M>,
    removed: DevId,
    other: DevId,
    sector: u64,
    bytes: &[u8],
) -> Result<Result<(), Refusal>, Refusal>
    requires whole { length bytes.now % 512 ≡ 0 }
    requires range { sector + length bytes.now / 512 ≤ sectors_of_volume (M.geometry pool.old.metadata) }
    requires most { length bytes.now / 512 ≤ 2048 }
    ensures again { IfOk result (λ answer. answer ≡ Err Refusal.NoDataSpace → (s : PlainPool) → shows M.Metadata pool.old s
        → s.geometry.data_blocks + own_blocks s removed < used s + blocks_touched s other sector (length bytes.now / 512)) }
    ensures done { IfOk result (λ answer. OnOk answer ((s : PlainPool) → shows M.Metadata pool.old s
        → (without : PlainPool) × (after : PlainPool) × Makes s (Delete removed) without × Makes without (Write other sector (sectors_of bytes.now) false) after
        × shows M.Metadata pool.new after)) }
{
    pool.delete(removed)?;
    Ok(pool.write(other, sector, bytes, false))
}

/// Where all of a pool is kept, a stop at any moment of the removal of a volume, also where the disk fails in it, leaves the pool as it was, that volume
/// whole; or the pool behind the removal. Where a metadata root is held it may leave the pool as it was, which wants a check. So none of its blocks is another one's before the removal is kept.
pub fn removals_leave_all_or_nothing<V: Volumes>()
    ensures { (old new : V) (s : PlainPool) (id : ℕ) (answer : Answer) → V.view.shows old s → ((P : PlainPool) → found_now V.view old P → P ≡ reopened s)
        → Called V.view old new (Delete id) answer → (P : PlainPool) → found_since V.view new (V.view.moment old) P → IsWholeOrGone id s P }
{}
