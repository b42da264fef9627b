//! What a snapshot costs.
ghost use Rattle.std.specs.Prelude.{IfOk, take};
ghost use Rattle.tp_model.specs.Pool.{PlainPool};
ghost use Rattle.tp_pool.specs.AtMetadata.{shows};
ghost use Rattle.tp_users.specs.Users.{CostsFew};

use tp_disk::Disk;
use tp_meta::Metadata;
use tp_model::{DevId, Refusal};
use tp_msg::LineBuffer;
use tp_pool::Pool;

/// Takes a snapshot of a volume and removes it again. The pool's status line is written into buffers before, between and behind: it answers
/// how many bytes each has.
///
/// The lines tell that with the snapshot at most three metadata blocks more are in use, whatever the volume maps, and that behind its
/// removal no more are in use than with it, where no metadata root is held. In all else the pool is as it was.
///
/// It refuses where the snapshot or its removal is refused.
pub fn snapshot_costs_three_blocks<D: Disk, M: Metadata>(
    pool: &mut Pool<D, M>,
    origin: DevId,
    id: DevId,
    before: &mut LineBuffer,
    between: &mut LineBuffer,
    behind: &mut LineBuffer,
) -> Result<(usize, usize, usize), Refusal>
    ensures told { IfOk result (λ lengths. (s : PlainPool) → shows M.Metadata pool.old s
        → CostsFew s id origin (take lengths.0 before.new) (take lengths.1 between.new) (take lengths.2 behind.new)) }
{
    let first = pool.status(before);
    pool.create_snap(id, origin)?;
    let second = pool.status(between);
    pool.delete(id)?;
    let third = pool.status(behind);
    Ok((first, second, third))
}
