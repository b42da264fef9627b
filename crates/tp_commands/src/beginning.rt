//! A hub over a pool, before it is asked anything: the clones that a server left which runs no more are deleted.

ghost use Rattle.std.specs.Prelude.{◌≡◌, List, [], MatchBool, MatchResult};
ghost use Rattle.std.specs.FinMap.{empty};
ghost use Rattle.nbd_session.specs.Turns.{closed};
ghost use Rattle.tp_hub.specs.Desks.{AreAsked, Exchange};
ghost use Rattle.tp_hub.specs.Serve.{HubRuns};
ghost use Rattle.tp_hub.specs.Serving.{HubState, sessions_of};
ghost use Rattle.tp_lines.specs.Clearing.{AreDeletes, accepted_in};

use std::alloc::{AllocError, Global};
use tp_hub::{Hub, OwnDesk};
use tp_lines::clear_clones;
use tp_msg::Managed;

/// Has a hub delete the volumes that have the ids of clones: how many there were. `Err` where there is no memory for that, and nothing was asked.
fn clear_left<V: Managed>(alloc: Global, hub: Hub<V>) -> (Hub<V>, Result<u32, AllocError>)
    ensures { (xs : List Exchange) × AreAsked (HubRuns V.view) hub xs result.0
        × MatchResult result.1 (λ deleted. AreDeletes 8388608 64 xs × (deleted ≡ accepted_in xs)) (λ _. xs ≡ []) }
{
    let mut desk = OwnDesk { alloc, hub };
    let cleared = clear_clones(alloc, &mut desk);
    let OwnDesk { alloc: _, hub } = desk;
    (hub, cleared)
}

/// A hub over a pool. Where clients may have clones it has deleted those that a server left: how many there were, or `Err` where there was no memory for that, and
/// nothing was asked.
pub fn begin_hub<V: Managed>(
    alloc: Global,
    pool: V,
    has_clones: bool,
) -> (Hub<V>, Result<u32, AllocError>)
    requires { (V.view.outline pool).holds ≡ empty }
    ensures { (begun : HubState V) × (begun.pool ≡ pool) × (sessions_of begun.slots ≡ closed) × (xs : List Exchange) × AreAsked (HubRuns V.view) begun xs result.0
        × MatchResult result.1 (λ deleted. MatchBool has_clones (AreDeletes 8388608 64 xs) (xs ≡ []) × (deleted ≡ accepted_in xs)) (λ _. xs ≡ []) }
{
    let hub = Hub::new(pool);
    if !has_clones {
        return (hub, Ok(0));
    }
    clear_left(alloc, hub)
}
