//! How a pool, or the hub over it, is ended, and its disk handed back.

ghost use Rattle.std.specs.Prelude.{◌≡◌, None, OnOk, Some};
ghost use Rattle.tp_model.specs.Pool.{PlainPool};
ghost use Rattle.tp_model.specs.Disk.{IsSettled};
ghost use Rattle.tp_meta.specs.Standing.{StandsFor, geometry_of};
ghost use Rattle.tp_pool.specs.Held.{shows};
ghost use Rattle.tp_served.specs.Served.{on_cache};
ghost use Rattle.tp_failures.specs.Failures.{number_of};
ghost use Rattle.tp_commands.specs.Lives.{HandsBack, closing_of};
ghost use Rattle.tp_commands.specs.Living.{IsOfClosing, IsOver};
ghost use Rattle.tp_commands.specs.Serving.{told_behind};

use tp_cache::ReadCache;
use tp_disk::{Disk, TellsTrouble};
use tp_failures::{Failure, because};
use tp_hub::Hub;
use tp_meta::Meta;
use tp_served::Served;

/// Closes a pool, and hands its disk back.
pub(crate) fn finish<D: Disk + TellsTrouble + Drop>(
    pool: Served<ReadCache<D>, Meta>,
) -> (D, Result<(), Failure>)
    ensures back { HandsBack pool (Some (closing_of (number_of result.1))) (D.state result.0) }
    ensures settled { OnOk result.1 ((s : PlainPool) → shows geometry_of StandsFor (on_cache pool) s → IsSettled (D.state result.0).cells) }
    ensures known { IsOfClosing (Some (closing_of (number_of result.1))) }
{
    let (answer, disk) = pool.close();
    let told = because(&disk, answer);
    (disk, told)
}

/// Ends all sessions of a hub, closes its pool, and hands the disk back.
pub fn end_hub<D: Disk + TellsTrouble + Drop>(
    hub: Hub<Served<ReadCache<D>, Meta>>,
) -> (D, Result<(), Failure>)
    ensures { IsOver hub (Some (closing_of (number_of result.1))) (D.state result.0) }
{
    finish(hub.into_pool())
}

/// Ends all sessions of a hub, and hands the disk back as it is then: the pool is not closed.
pub(crate) fn leave_hub<D: Disk + TellsTrouble + Drop>(hub: Hub<Served<ReadCache<D>, Meta>>) -> D
    ensures { IsOver hub None (D.state result) }
{
    let pool = hub.into_pool();
    pool.facts();
    pool.into_disk()
}

/// What is told behind closing: that it is refused first.
pub fn behind(closed: Result<(), Failure>, told: Result<(), Failure>) -> Result<(), Failure>
    ensures { number_of result ≡ told_behind (number_of closed) (number_of told) }
{
    match closed {
        Ok(()) => told,
        Err(why) => Err(why),
    }
}
