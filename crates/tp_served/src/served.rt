//! The pool as programs use it.
ghost use Rattle.std.specs.Prelude.{◌≡◌, ◌⊎◌, ◌+◌, ◌/◌, ◌%◌, IfErr, MatchResult, OnOk, length};
ghost use Rattle.tp_model.specs.Sectors.{sectors_of};
ghost use Rattle.tp_model.specs.Pool.{PlainPool, copy_id};
ghost use Rattle.tp_model.specs.Disk.{IsSettled};
ghost use Rattle.tp_pool.specs.AtMetadata.{shows};
ghost use Rattle.tp_model.specs.Calls.{Done, Gave, HeldRead, Refused};
ghost use Rattle.tp_model.specs.Clauses.{EndsInVolume, MetBy};
ghost use Rattle.tp_msg.specs.Asked.{call_of};
ghost use Rattle.tp_served.specs.AtMetadata.{IsClosed, cached};
ghost use Rattle.tp_served.specs.Served.{IsKnown, disk_of, on_cache};

use crate::calls::{close_on, held_read_on};
use crate::inside::Inside;
use crate::lent::Lent;
use std::marker::{Brand, Model};
use tp_disk::Disk;
use tp_meta::Metadata;
use tp_model::{DevId, Refusal, Volumes};
use tp_msg::{Managed, Message};

/// A pool over a disk, which keeps changed metadata blocks in memory until it commits, and holds blocks that were read. No call takes
/// memory.
#[derive(Drop)]
pub struct Served<D: Disk, M: Metadata> {
    pub(crate) lent: Lent<D, M>,
}

impl<D: Disk, M: Metadata> Model for Served<D, M> {
    ghost use Rattle.tp_served.specs.Served as served;

    ghost Value = { served.Cached M };

    ghost view = { λ s. served.got s.lent.inside s.lent.there };
}

impl<D: Disk + Drop, M: Metadata + Drop> Served<D, M> {
    pub(crate) fn of(inside: Inside<D, M>) -> Served<D, M>
        ensures { result ≡ inside }
    {
        Served {
            lent: Lent::of(inside),
        }
    }

    /// Reads sectors that a volume had when the mapping that is held was reserved, whatever has become of the volume since. The range lies in the volume
    /// as it was; where nobody knows its size, one that lies in the pool's own size will do. It writes nothing.
    ///
    /// Refused by `Failed`, `NoHeldRoot` (none is held), `NoSuchDevice`, `Fault` or `Damaged`.
    pub fn held_read(&mut self, id: DevId, sector: u64, out: &mut [u8]) -> Result<(), Refusal>
        requires whole { length out.old % 512 ≡ 0 }
        requires range { EndsInVolume (cached M.Metadata) self.old (copy_id id) (sector + length out.old / 512) }
        ensures length { length out.new ≡ length out.old }
        ensures met { MetBy (cached M.Metadata) self.old self.new (HeldRead id sector (length out.old / 512)) (λ _. Gave (sectors_of out.new)) result }
    {
        held_read_on::<D, M, Brand>(&mut self.lent, id, sector, out)
    }

    /// Makes the call that a message asks for, and keeps it: what it changes, and the flush behind that. What each message is refused for stands at `Message`.
    pub fn order(&mut self, message: &Message) -> Result<(), Refusal>
        ensures { MetBy (cached M.Metadata) self.old self.new (call_of message.now) (λ _. Done) result }
    {
        match self.change(message) {
            Some(answer) => answer,
            None => self.flush(),
        }
    }

    /// Keeps all that was done, as `flush` does and with its answers, and hands the disk back with any of them.
    pub(crate) fn end(self) -> (Result<(), Refusal>, D)
        ensures closed { MatchResult result.0
            (λ _. IsClosed M.Metadata self (D.state result.1) Done)
            (λ reason. IsClosed M.Metadata self (D.state result.1) (Refused reason)) }
        // Nothing was written behind the last flush, so it can be opened at once.
        ensures settled { OnOk result.0 ((s : PlainPool) → shows M.Metadata (on_cache self) s → IsSettled (D.state result.1).cells) }
        ensures only { IfErr result.0 (λ reason. (reason ≡ Refusal.Failed) ⊎ (reason ≡ Refusal.Fault)) }
    {
        let Served { lent } = self;
        close_on::<D, M, Brand>(lent)
    }

    /// The disk under the cache of changed blocks, as it is now.
    pub(crate) fn into_under(self) -> D
        ensures { D.state result ≡ disk_of self }
    {
        let Served { lent } = self;
        lent.into_disk()
    }

    /// What is known of each: the disk under the cache has the size, honesty and failures of the pool's own, and its data blocks.
    pub fn facts(&self)
        ensures { IsKnown M.geometry self.now }
    {
        self.lent.facts();
    }

    /// The disk under the cache of changed blocks.
    pub(crate) fn under(&self) -> &D
        ensures { D.state result.now ≡ disk_of self.now }
    {
        self.lent.disk()
    }
}
