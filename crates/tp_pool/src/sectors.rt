//! Sectors of a volume and the virtual blocks in which they lie.
ghost use Rattle.std.specs.Prelude.{nat_le, if◌then◌else◌, ◌≡◌, ◌⊎◌, ◌+◌, ◌-◌, ◌*◌, ◌/◌, ◌%◌, ◌^◌, ◌<◌, ◌≤◌};
ghost use Rattle.tp_model.specs.Geometry.{IsWithinLimits};
ghost use Rattle.tp_pool.specs.Held.{most_sectors};
ghost use Rattle.tp_shown.specs.Shown.{blocks_covered, blocks_touched, first_covered};

use tp_model::{Geometry, Vb};

/// Bytes of a sector.
pub(crate) const SECTOR: u64 = 512;

/// The most blocks that a volume may have.
const MOST_VOLUME: u32 = 16_777_216;

/// The most blocks that a request touches: 2048 sectors, of blocks of 128.
pub(crate) const MOST_BLOCKS: usize = 17;

/// The blocks of a volume for which whoever holds it was told so many: no fewer than the pool's own size has, and no more than a volume may have.
pub(crate) fn blocks_known(geometry: &Geometry, blocks: u32) -> u32
    ensures value { result ≡ geometry.now.virtual_blocks + ((if nat_le blocks (2 ^ 24) then blocks else 2 ^ 24) - geometry.now.virtual_blocks) }
    ensures most { result ≤ 2 ^ 24 }
{
    blocks.min(MOST_VOLUME).max(geometry.virtual_blocks())
}

/// How many of `count` sectors from this one on lie in so many blocks, from its own on.
pub(crate) fn part_of(geometry: &Geometry, sector: u64, count: u64, blocks: u32) -> u64
    requires some { 0 < count }
    requires blocks { 0 < blocks }
    requires few { blocks ≤ 17 }
    ensures some { 0 < result }
    ensures most { result ≤ count }
    ensures inside { sector % geometry.now.block_sectors + result ≤ blocks * geometry.now.block_sectors }
    ensures limits { IsWithinLimits geometry.now }
    ensures ends { (result ≡ count) ⊎ (sector % geometry.now.block_sectors + result ≡ blocks * geometry.now.block_sectors) }
{
    let block_sectors = geometry.block_sectors() as u64;
    count.min(blocks as u64 * block_sectors - sector % block_sectors)
}

/// The block of a sector of a volume.
pub(crate) fn block_of(geometry: &Geometry, sector: u64) -> Vb
    requires { sector < most_sectors geometry.now }
    ensures block { result ≡ sector / geometry.now.block_sectors }
    ensures inside { result < 2 ^ 24 }
    ensures limits { IsWithinLimits geometry.now }
{
    Vb::new((sector / geometry.block_sectors() as u64) as u32)
}

/// How many blocks `count` sectors from this one on touch.
pub(crate) fn touched(geometry: &Geometry, sector: u64, count: u64) -> usize
    requires most { count ≤ 2048 }
    requires within { sector + count ≤ most_sectors geometry.now }
    ensures value { result ≡ blocks_touched geometry.now sector count }
    ensures few { result ≤ 17 }
    ensures limits { IsWithinLimits geometry.now }
{
    let block_sectors = geometry.block_sectors() as u64;
    if count == 0 {
        return 0;
    }
    ((sector + count - 1) / block_sectors + 1 - sector / block_sectors) as usize
}

/// The first block that `count` sectors from this one on touch; where there are none of them, the first block of all.
pub(crate) fn first_of(geometry: &Geometry, sector: u64, count: u64) -> Vb
    requires within { sector + count ≤ most_sectors geometry.now }
    ensures first { 0 < count → result ≡ sector / geometry.now.block_sectors }
    ensures run { result + blocks_touched geometry.now sector count ≤ 2 ^ 24 }
{
    if count == 0 {
        return Vb::new(0);
    }
    block_of(geometry, sector)
}

/// How many whole blocks lie before a sector.
fn whole_blocks(geometry: &Geometry, sector: u64) -> u64
    ensures value { result ≡ sector / geometry.now.block_sectors }
    ensures limits { IsWithinLimits geometry.now }
{
    sector / geometry.block_sectors() as u64
}

/// The first block that begins in `count` sectors from this one on or behind them, and how many blocks lie wholly in them.
pub(crate) fn covered(geometry: &Geometry, sector: u64, count: u64) -> (u64, u64)
    requires most { count ≤ 2048 }
    requires within { sector + count ≤ most_sectors geometry.now }
    ensures first { result.0 ≡ first_covered geometry.now sector }
    ensures blocks { result.1 ≡ blocks_covered geometry.now sector count }
    ensures limits { IsWithinLimits geometry.now }
{
    let last = geometry.block_sectors() as u64 - 1;
    let first = whole_blocks(geometry, sector + last);
    let end = whole_blocks(geometry, sector + count);
    (first, end.saturating_sub(first))
}

/// The place of a sector's block among those of a range from `start` on.
pub(crate) fn index_of(geometry: &Geometry, start: u64, sector: u64) -> usize
    requires within { sector < most_sectors geometry.now }
    requires behind { start ≤ sector }
    ensures index { result ≡ sector / geometry.now.block_sectors - start / geometry.now.block_sectors }
    ensures limits { IsWithinLimits geometry.now }
{
    let first = block_of(geometry, start).number();
    let number = block_of(geometry, sector).number();
    (number - first) as usize
}
