//! A pool that takes messages and tells its status lines.
ghost use Rattle.std.specs.Prelude.{◌≡◌, ◌≤◌, IfOk, MatchResult, take};
ghost use Rattle.tp_model.specs.Calls.{Done, Line, Refused, Status, ThinStatus};
ghost use Rattle.tp_model.specs.Clauses.{Meets};
ghost use Rattle.tp_msg.specs.Asked.{IsMessageBegun, call_of};

use crate::message::Message;
use crate::status::LineBuffer;
use tp_model::{Cloned, DevId, Refusal};

/// The calls of a pool that are no requests of those who are served: its messages, of which `Cloned` has two as calls of their own, its status lines, and the walks
/// over its volumes. `order` makes a whole message.
pub trait Managed: Cloned {
    /// Makes what a message asks for, but for the commit behind it: its answer where that is all of it, as where it is refused, and else None.
    ///
    /// Then nothing is kept yet, and a FLUSH behind it makes it the message, with the FLUSH's answer (`tp_model::unkept_calls_are_flushed`); a stop before that leaves
    /// the pool with what the message does or without it. So whoever makes that FLUSH in parts has READs go on while the device keeps what the message did.
    fn change(&mut self, message: &Message) -> Option<Result<(), Refusal>>
        ensures { IsMessageBegun Self.view self.old self.new message.now result };

    /// Writes the pool's status line into a buffer, and answers its length in bytes; those behind it mean nothing.
    fn status(&mut self, out: &mut LineBuffer) -> usize
        ensures met { Meets Self.view self.old self.new Status (Line (take result out.new)) }
        ensures fits { result ≤ 192 };

    /// Writes a volume's status line into a buffer, and answers its length in bytes; those behind it mean nothing.
    ///
    /// Refused by `NoSuchDevice`, `Fault` or `Damaged`.
    fn thin_status(&mut self, id: DevId, out: &mut LineBuffer) -> Result<usize, Refusal>
        ensures met { MatchResult result
            (λ length. Meets Self.view self.old self.new (ThinStatus id) (Line (take length out.new)))
            (λ reason. Meets Self.view self.old self.new (ThinStatus id) (Refused reason)) }
        ensures fits { IfOk result (λ length. length ≤ 192) };
}

/// Makes the call that a message asks for, and keeps it: what it changes, and the FLUSH behind that. What each message is refused for stands at `Message`.
pub fn order<V: Managed>(pool: &mut V, message: &Message) -> Result<(), Refusal>
    ensures { MatchResult result
        (λ _. Meets V.view pool.old pool.new (call_of message.now) Done)
        (λ reason. Meets V.view pool.old pool.new (call_of message.now) (Refused reason)) }
{
    match pool.change(message) {
        Some(answer) => answer,
        None => pool.flush(),
    }
}
