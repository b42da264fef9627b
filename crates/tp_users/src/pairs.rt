//! A user of the hub: two clients in turn.

ghost use Rattle.std.specs.Prelude.{◌≡◌};
ghost use Rattle.std.specs.FinMap.{empty};
ghost use Rattle.tp_model.specs.Clauses.{PoolCall};
ghost use Rattle.nbd_session.specs.Turns.{Sessions};
ghost use Rattle.tp_hub.specs.Pairs.{InTurn};
ghost use Rattle.tp_hub.specs.Serving.{AllLeave};

use nbd_session::Profile;
use std::alloc::Global;
use tp_hub::{Answers, Event, Hub, Ran};
use tp_msg::Managed;

/// Serves two clients in turn, each with all that it sends, and gives back the pool without sessions. It also tells how much was taken:
/// both clients and all that they sent, where there was memory for it.
pub fn serve_two<'x, V: Managed>(
    alloc: Global,
    pool: V,
    first: &'x [u8],
    second: &'x [u8],
    out: &mut Answers,
) -> (V, Ran)
    requires { (V.view.outline pool).holds ≡ empty }
    ensures serves { (after : Sessions) × (mid : V)
        × (result.1.events ≡ 4 → InTurn V.view.outline (PoolCall V.view) Profile.Strict Profile.Strict pool first.now second.now out.old out.new after mid) × AllLeave V.view after mid result.0 }
    ensures free { (V.view.outline result.0).holds ≡ empty }
{
    let mut hub = Hub::new(pool);
    let events = [
        Event::Open(0, Profile::Strict),
        Event::Open(1, Profile::Strict),
        Event::Bytes(0, first),
        Event::Bytes(1, second),
    ];
    let ran = hub.run(alloc, &events, out);
    (hub.into_pool(), ran)
}
