//! The last part of the commit of a store of nodes.
ghost use Rattle.std.specs.Prelude.{◌≡◌};
ghost use Rattle.tp_model.specs.Disk.{DiskState, IsSameDisk};
ghost use Rattle.tp_meta.specs.Midway.{IsNamed, StoresCommit};

use crate::stale::{AreaMarks, StaleBlocks};
use tp_disk::{Disk, Fault};
use tp_layout::Superblock;
use tp_tm::Tm;

/// The last part: flushes the superblock. Only then anything changes in memory.
pub(crate) fn end_store<D: Disk>(
    tm: &mut Tm,
    disk: &mut D,
    next: Superblock,
    stale: &mut StaleBlocks,
) -> Result<(), Fault>
    ensures committed { (before : DiskState) → IsNamed tm.old stale.old next before (D.state disk.old)
        → StoresCommit tm.old tm.new stale.old stale.new next result before (D.state disk.new) }
    ensures same_disk { IsSameDisk (D.state disk.old) (D.state disk.new) }
    ensures sizes { tm.new.geometry ≡ tm.old.geometry }
{
    match disk.flush() {
        Ok(()) => {}
        Err(Fault) => return Err(Fault),
    }
    let changed = AreaMarks::changed_in(tm);
    tm.keep();
    stale.kept_in(next.slot(), &changed);
    Ok(())
}
