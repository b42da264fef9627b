//! The messages of a pool, and its status lines.
ghost use Rattle.std.specs.Prelude.{◌≤◌, IfOk, take};
ghost use Rattle.tp_model.specs.Calls.{Line, Status, ThinStatus};
ghost use Rattle.tp_model.specs.Clauses.{Meets, MetBy};
ghost use Rattle.tp_msg.specs.Asked.{IsMessageBegun};
ghost use Rattle.tp_served.specs.AtMetadata.{cached};

use crate::calls::{change_on, status_on, thin_status_on};
use crate::served::Served;
use std::marker::Brand;
use tp_disk::Disk;
use tp_meta::Metadata;
use tp_model::{Cloned, DevId, Refusal};
use tp_msg::{LineBuffer, Managed, Message};

impl<D: Disk + Drop, M: Metadata + Drop> Cloned for Served<D, M> {
    fn create_snap(&mut self, id: DevId, origin: DevId) -> Result<(), Refusal> {
        self.order(&Message::CreateSnap { id, origin })
    }

    fn delete(&mut self, id: DevId) -> Result<(), Refusal> {
        self.order(&Message::Delete { id })
    }
}

impl<D: Disk + Drop, M: Metadata + Drop> Managed for Served<D, M> {
    /// Makes what a message asks for, but for the commit behind it: its answer where that is all of it, as where it is refused, and else None. Then nothing is
    /// kept yet, and a flush behind it, in parts or at once, makes it the message, with the flush's answer.
    fn change(&mut self, message: &Message) -> Option<Result<(), Refusal>>
        ensures { IsMessageBegun (cached M.Metadata) self.old self.new message.now result }
    {
        change_on::<D, M, Brand>(&mut self.lent, message)
    }

    /// Writes the pool's status line into a buffer and answers its length; the bytes behind it are of no meaning. No call of the disk is made.
    ///
    /// It tells how many data blocks some volume maps; those that only wait for a commit are not counted. A failed pool's line is `Fail`.
    fn status(&mut self, out: &mut LineBuffer) -> usize
        ensures met { Meets (cached M.Metadata) self.old self.new Status (Line (take result out.new)) }
        ensures fits { result ≤ 192 }
    {
        status_on::<D, M, Brand>(&mut self.lent, out)
    }

    /// Writes a volume's status line into a buffer and answers its length, the bytes behind it being of no meaning. It changes nothing, whatever it
    /// answers.
    ///
    /// The line tells how many sectors of 512 bytes are mapped, and the last sector of the highest block that is. In a failed pool it is `Fail`, for every
    /// id.
    ///
    /// Refused by `NoSuchDevice` or `Fault`.
    fn thin_status(&mut self, id: DevId, out: &mut LineBuffer) -> Result<usize, Refusal>
        ensures met { MetBy (cached M.Metadata) self.old self.new (ThinStatus id) (λ length. Line (take length out.new)) result }
        ensures fits { IfOk result (λ length. length ≤ 192) }
    {
        thin_status_on::<D, M, Brand>(&mut self.lent, id, out)
    }
}
