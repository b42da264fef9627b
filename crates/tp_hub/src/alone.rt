//! One client over a hub that nobody else uses.

ghost use Rattle.std.specs.Prelude.{◌≡◌, ◌<◌, ◌≤◌, [], List, length};
ghost use Rattle.nbd_session.specs.Clauses.{GoesWithTrace};
ghost use Rattle.tp_hub.specs.Told.{Answer, KeepsRoom};
ghost use Rattle.tp_hub.specs.Runs.{Incoming, incoming, session_of};
ghost use Rattle.tp_hub.specs.Desks.{IsAsked};
ghost use Rattle.tp_hub.specs.Serve.{HubRuns, IsServedAs, IsServedBy, PlainRuns, with_pool};

use crate::answers::Answers;
use crate::client::{Carried, carry};
use crate::desk::Desk;
use crate::event::Event;
use crate::hub::{Hub, Ran};
use crate::stream::Stream;
use nbd_session::Profile;
use std::alloc::Global;
use tp_msg::Managed;

/// A hub that nobody else asks, with the allocator from which it takes its memory.
#[derive(Drop)]
pub struct OwnDesk<V: Managed> {
    pub alloc: Global,
    pub hub: Hub<V>,
}

impl<V: Managed> Desk for OwnDesk<V> {
    ghost use Rattle.tp_hub.specs.Serve.{HubRuns};

    ghost asks = { λ a took answers b. HubRuns V.view a.hub took answers b.hub };

    fn ask(&mut self, event: Event<'_>, out: &mut Answers) -> Ran {
        self.hub.take(self.alloc, event, out)
    }
}

/// Carries a client under this number.
fn serve_as<V: Managed, S: Stream>(
    alloc: Global,
    hub: Hub<V>,
    number: u8,
    profile: Profile,
    stream: &mut S,
    buffer: &mut Vec<u8>,
    out: &mut Answers,
) -> (Hub<V>, Carried)
    requires number { number < 64 }
    requires room { 0 < length buffer.old.items }
    requires empty { out.old.list ≡ [] }
    ensures served { IsServedAs (HubRuns V.view) number profile hub result.0 (S.calls stream.old) (S.calls stream.new) out.new result.1 }
    ensures empty { out.new.list ≡ [] }
    ensures wide { KeepsRoom out.old out.new }
    ensures long { out.old.marks ≤ out.new.marks }
{
    let mut desk = OwnDesk { alloc, hub };
    let ending = carry(&mut desk, number, profile, stream, buffer, out);
    let OwnDesk { alloc: _, hub } = desk;
    (hub, ending)
}

/// Carries a client under the least number that is not open, as [`carry`] does, and gives the hub back. Where all 64 are open it is turned
/// away (`InUse`): nothing is read, written or asked.
pub fn serve<V: Managed, S: Stream>(
    alloc: Global,
    hub: Hub<V>,
    profile: Profile,
    stream: &mut S,
    buffer: &mut Vec<u8>,
    out: &mut Answers,
) -> (Hub<V>, Carried)
    requires room { 0 < length buffer.old.items }
    requires empty { out.old.list ≡ [] }
    ensures served { IsServedBy (HubRuns V.view) profile hub result.0 (S.calls stream.old) (S.calls stream.new) out.new result.1 }
    ensures traced { GoesWithTrace V.view hub.pool result.0.pool (λ t t'. IsServedBy (PlainRuns V.view) profile (with_pool hub t) (with_pool result.0 t')
        (S.calls stream.old) (S.calls stream.new) out.new result.1) }
    ensures empty { out.new.list ≡ [] }
    ensures wide { KeepsRoom out.old out.new }
    ensures long { out.old.marks ≤ out.new.marks }
{
    match hub.free_number() {
        None => (hub, Carried::InUse),
        Some(number) => serve_as(alloc, hub, number, profile, stream, buffer, out),
    }
}
