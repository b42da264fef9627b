//! Shared reads of a pool: by those who look at it at once, while nobody changes it.
ghost use Rattle.std.specs.Prelude.{◌≡◌, ◌+◌, ◌/◌, ◌%◌, ◌≤◌, List, length, IsSome, IsTrue};
ghost use Rattle.std.specs.List.{concat};
ghost use Rattle.tp_model.specs.Disk.{seen};
ghost use Rattle.tp_sharing.specs.Volumes.{device_of};
ghost use Rattle.tp_stored.specs.Contents.{Contents};
ghost use Rattle.tp_shown.specs.Shown.{values_at};
ghost use Rattle.tp_model.specs.Geometry.{sectors_of_image};
ghost use Rattle.tp_model.specs.Clauses.{EndsInVolume};
ghost use Rattle.tp_holders.specs.Holders.{Holding};
ghost use Rattle.tp_pool.specs.Held.{Fits};
ghost use Rattle.tp_model.specs.Sectors.{sectors_of};
ghost use Rattle.tp_pool.specs.Besides.{pool_on};
ghost use Rattle.tp_pool.specs.AtMetadata.{IsSharedRead, LiesIn, view};

use crate::pool::{Besides, Pool, is_failed};
use crate::reading::read_told;
use tp_blocks::Blocks;
use tp_disk::{SharedDisk, SharedReader};
use tp_meta::Metadata;
use tp_model::{DevId, Mode};

/// Reads sectors of a volume from this one on, until `out` is full: true where the pool works, there is such a volume, and the disk could be
/// looked at. False says nothing. `out` may hold anything behind it.
pub(crate) fn read_parts<D: SharedDisk, M: Metadata>(
    disk: &D,
    metadata: &M,
    blocks: &Blocks,
    mode: Mode,
    id: DevId,
    sector: u64,
    out: &mut [u8],
) -> bool
    requires blocks { blocks.now ≡ M.geometry metadata.now }
    requires disk { sectors_of_image (M.geometry metadata.now) ≤ (D.state disk.now).size }
    requires whole { length out.old % 512 ≡ 0 }
    requires within { Fits (M.geometry metadata.now) (sector + length out.old / 512) }
    ensures length { length out.new ≡ length out.old }
    ensures read { IsTrue result → (holders : List Holding) → LiesIn M.Metadata (record { disk = D.state disk.now; metadata = metadata.now; holders = holders; mode = mode }) id (sector + length out.old / 512)
        → IsSharedRead M.Metadata
        (record { disk = D.state disk.now; metadata = metadata.now; holders = holders; mode = mode }) id sector (length out.old / 512) (sectors_of out.new) }
    // By what look-ups tell on the disk, also in the midst of a commit.
    ensures told { IsTrue result → (now kept : Contents) → M.tells metadata.now (D.state disk.now) now kept → IsSome (device_of id now.volumes)
        × (out.new ≡ concat (values_at (M.geometry metadata.now) now.volumes (seen (D.state disk.now).cells) id sector (length out.old / 512))) }
{
    if is_failed(mode) {
        return false;
    }
    let mut reader = SharedReader::new(disk);
    read_told(&mut reader, metadata, blocks, false, id, sector, out).unwrap_or(false)
}

impl<M: Metadata> Besides<M> {
    /// Reads sectors of a volume of the pool that these make on a disk, which stays where it is: true where `out` has what `Pool::read` would
    /// give. False says nothing of the pool, and no call of it was made: `Pool::read` is to be asked then. `out` may hold anything behind it.
    /// The range lies in the volume.
    pub fn read_shared<D: SharedDisk>(
        &self,
        disk: &D,
        id: DevId,
        sector: u64,
        out: &mut [u8],
    ) -> bool
        requires disk { sectors_of_image (M.geometry self.now.metadata) ≤ (D.state disk.now).size }
        requires whole { length out.old % 512 ≡ 0 }
        requires range { EndsInVolume (view M.Metadata) (pool_on (D.state disk.now) self.now) id (sector + length out.old / 512) }
        ensures length { length out.new ≡ length out.old }
        ensures read { IsTrue result → IsSharedRead M.Metadata (pool_on (D.state disk.now) self.now) id sector (length out.old / 512) (sectors_of out.new) }
    {
        read_parts(
            disk,
            &self.metadata,
            &self.blocks,
            self.mode,
            id,
            sector,
            out,
        )
    }
}

impl<D: SharedDisk, M: Metadata> Pool<D, M> {
    /// Reads sectors of a volume, for any of those who look at the pool at once: true where `out` has what `read` would give. False says nothing of
    /// the pool, and no call of it was made: `read` is to be asked then. `out` may hold anything behind it. The range lies in the
    /// volume.
    pub fn read_shared(&self, id: DevId, sector: u64, out: &mut [u8]) -> bool
        requires whole { length out.old % 512 ≡ 0 }
        requires range { EndsInVolume (view M.Metadata) self.now id (sector + length out.old / 512) }
        ensures length { length out.new ≡ length out.old }
        ensures read { IsTrue result → IsSharedRead M.Metadata self.now id sector (length out.old / 512) (sectors_of out.new) }
    {
        read_parts(
            &self.disk,
            &self.metadata,
            &self.blocks,
            self.mode,
            id,
            sector,
            out,
        )
    }

    /// Brings to the device what was written to its disk so far, for a flush that comes next, while others read.
    pub fn sync_ahead(&self) {
        self.disk.sync_ahead(0);
    }
}
