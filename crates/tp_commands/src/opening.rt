//! The pool on a disk.

ghost use Rattle.std.specs.Prelude.{IfErr, IfOk};
ghost use Rattle.tp_disk.specs.HandedOut.{IsHandedOut};
ghost use Rattle.tp_commands.specs.Opening.{IsOpenedOn, IsRefusedOn};

use crate::caches::ROOM;
use std::alloc::Global;
use tp_cache::ReadCache;
use tp_disk::{Disk, TellsTrouble};
use tp_failures::Failure;
use tp_meta::Meta;
use tp_served::Served;

/// The pool on a disk, or why it is not opened, with the disk handed back.
pub fn open_pool<D: Disk + TellsTrouble + Drop>(
    alloc: Global,
    disk: D,
) -> Result<Served<ReadCache<D>, Meta>, (Failure, D)>
    requires { IsHandedOut (D.state disk) }
    ensures opened { IfOk result (λ pool. IsOpenedOn (D.state disk) pool) }
    ensures refused { IfErr result (λ back. IsRefusedOn (D.state disk) (D.state back.1) back.0.refusal) }
{
    match Served::open(alloc, disk, ROOM) {
        Ok(pool) => Ok(pool),
        Err((refusal, disk)) => Err((Failure::on_disk(refusal, disk.trouble()), disk)),
    }
}
