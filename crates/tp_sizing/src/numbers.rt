//! The numbers of blocks, each a formula of its own.
ghost use Rattle.std.specs.Prelude.{◌≡◌, ℕ, ◌+◌, ◌*◌, ◌≤◌, ◌<◌, ◌↔◌, IsTrue};
ghost use Rattle.tp_sizing.specs.Numbers.{DoesMetadata, behind_fixed, for_volumes, room_for_volumes};
ghost use Rattle.tp_sizing.specs.Sizing.{AreEnough};

use crate::wanted::Wanted;

/// Bytes of a sector.
const SECTOR_LEN: u64 = 512;

/// The most data blocks that a pool may have.
const MOST_DATA_BLOCKS: u64 = 1_048_576;

/// The most blocks that a volume may have.
const MOST_VIRTUAL_BLOCKS: u64 = 16_777_216;

/// How many blocks of so many sectors hold these bytes.
pub(crate) fn blocks_for(bytes: u64, sectors: u64) -> u64
    requires few { sectors ≤ 2048 }
    requires some { 0 < sectors }
    ensures enough { bytes ≤ result * (512 * sectors) }
    ensures least { result * (512 * sectors) < bytes + 512 * sectors }
{
    bytes.div_ceil(SECTOR_LEN * sectors)
}

/// Whether a pool and its volumes have enough blocks of so many sectors.
pub(crate) fn are_enough(wanted: &Wanted, sectors: u64) -> bool
    requires few { sectors ≤ 2048 }
    requires some { 0 < sectors }
    ensures { IsTrue result ↔ AreEnough wanted.now sectors }
{
    blocks_for(wanted.size, sectors) <= MOST_DATA_BLOCKS
        && blocks_for(wanted.volume_size, sectors) <= MOST_VIRTUAL_BLOCKS
}

/// How many volumes have room in the most metadata, where each takes so many blocks besides what 31 of them share.
pub(crate) fn fitting_volumes(data_blocks: u64, each: u64) -> u64
    requires few { data_blocks ≤ 1048576 }
    requires some { 0 < each }
    requires most { each ≤ 16645 }
    ensures fit { for_volumes result each ≤ room_for_volumes data_blocks }
    ensures none { room_for_volumes data_blocks < for_volumes (result + 1) each }
{
    // Of 65536 blocks 128 are for their own counts, two are superblocks, one is the root of the devices, and 512 are left.
    let room = 65_536 - 128 - 2 - 1 - 512 - 2 * data_blocks.div_ceil(1024);
    (31 * room + 30) / (31 * each + 1)
}

/// The least metadata blocks for so many volumes.
pub(crate) fn metadata_for(data_blocks: u64, volumes: u64, each: u64) -> u64
    requires few { data_blocks ≤ 1048576 }
    requires fit { for_volumes volumes each ≤ room_for_volumes data_blocks }
    ensures enough { DoesMetadata data_blocks (behind_fixed volumes each) result }
    ensures least { (n : ℕ) → DoesMetadata data_blocks (behind_fixed volumes each) n → result ≤ n }
    ensures most { result ≤ 65536 }
{
    // The root of the devices, and 512 that are left; the least that is allowed is 1024.
    let behind = (volumes / 31 + volumes * each + 513).max(1024);
    let rest = 2 + 2 * data_blocks.div_ceil(1024) + behind;
    // Of 1024 metadata blocks two are those of their own counts.
    rest + 2 * rest.div_ceil(1022)
}
