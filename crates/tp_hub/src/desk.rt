//! What takes the events of clients, one at a time.

ghost use Rattle.std.specs.Prelude.{◌≡◌, ◌<◌, List};
ghost use Rattle.tp_hub.specs.Told.{Answer};
ghost use Rattle.tp_hub.specs.Runs.{Incoming, incoming, session_of};
ghost use Rattle.tp_hub.specs.Desks.{IsAsked};

use crate::answers::Answers;
use crate::event::Event;
use crate::hub::{Hub, Ran};
use std::alloc::Global;
use tp_model::Volumes;
use tp_msg::Managed;

/// What takes one event at a time.
pub trait Desk {
    /// What was taken between two states of it in one ask, and what was answered. A desk that is shared may know nothing of it.
    ghost asks: { Self → List Incoming → List Answer → Self → Type 0 };

    /// Takes one event, as far as there is memory, and adds its answers.
    fn ask(&mut self, event: Event<'_>, out: &mut Answers) -> Ran
        requires { session_of event < 64 }
        ensures { IsAsked (λ took answers. asks self.old took answers self.new) (incoming event.entry) result.events result.bytes out.old out.new };
}

/// A hub that takes its memory from an allocator.
pub struct HubDesk<'h, V: Volumes> {
    pub alloc: Global,
    pub hub: &'h mut Hub<V>,
}

impl<'h, V: Managed> Desk for HubDesk<'h, V> {
    ghost use Rattle.tp_hub.specs.Serving.{sessions_of};
    ghost use Rattle.tp_hub.specs.Desks.{RunsSo};

    ghost asks = { λ a took answers b. RunsSo V.view (sessions_of a.hub.now.slots) a.hub.now.pool took answers (sessions_of b.hub.now.slots) b.hub.now.pool };

    fn ask(&mut self, event: Event<'_>, out: &mut Answers) -> Ran {
        self.hub.take(self.alloc, event, out)
    }
}
