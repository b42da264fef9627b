//! The sizes of a pool for what it is to hold.
ghost use Rattle.std.specs.Prelude.{◌≡◌, ◌↔◌, ◌*◌, ◌≤◌, ◌<◌, ℕ, IfErr, IfOk, IfSome, IsTrue, MatchOption, MatchResult};
ghost use Rattle.tp_model.specs.Geometry.{Geometry};
ghost use Rattle.tp_sizing.specs.Sizing.{AreEnough, IsAllowed, IsBlockSize, IsInRange, IsMost, IsSizedFor, IsSmallest, IsUnfit, Suits};
ghost use Rattle.tp_sizing.specs.Numbers.{AreBlocks};

use crate::numbers::{are_enough, blocks_for, fitting_volumes, metadata_for};
use crate::wanted::{Unfit, Wanted};
use tp_model::Geometry;

/// The smallest block, in sectors: 64 KiB.
const SMALLEST_BLOCK: u64 = 128;

/// The largest block, in sectors: 1 MiB.
const LARGEST_BLOCK: u64 = 2048;

/// The sectors of a block of this many bytes, if a block has as many.
fn block_of(bytes: u64) -> Option<u64>
    ensures { MatchOption result ((n : ℕ) → IsBlockSize n → bytes ≡ 512 * n → ⊥) (λ n. IsBlockSize n × (bytes ≡ 512 * n)) }
{
    match bytes {
        65_536 => Some(128),
        131_072 => Some(256),
        262_144 => Some(512),
        524_288 => Some(1024),
        1_048_576 => Some(2048),
        _ => None,
    }
}

/// The smallest block and the largest that are allowed, in sectors: those of the size that is wanted, if one is.
fn allowed_blocks(wanted: &Wanted) -> Option<(u64, u64)>
    ensures blocks { MatchOption result ((n : ℕ) → IsAllowed wanted.now n → ⊥) (λ r. AreBlocks wanted.now r.0 r.1) }
    ensures limits { IfSome result (λ r. (0 < r.1) × (r.1 ≤ 2048)) }
{
    match wanted.block_size {
        None => Some((SMALLEST_BLOCK, LARGEST_BLOCK)),
        Some(bytes) => {
            let sectors = block_of(bytes)?;
            Some((sectors, sectors))
        }
    }
}

/// How many volumes have room at most, with blocks of so many sectors and the most metadata.
fn most_volumes(wanted: &Wanted, sectors: u64) -> u64
    requires range { IsInRange wanted.now }
    requires allowed { IsBlockSize sectors }
    requires enough { AreEnough wanted.now sectors }
    ensures { (g : Geometry) × IsMost wanted.now sectors result g }
{
    let data_blocks = blocks_for(wanted.size, sectors);
    let virtual_blocks = blocks_for(wanted.volume_size, sectors);
    let each = 1 + virtual_blocks.min(data_blocks) / 63;
    fitting_volumes(data_blocks, each)
}

/// Whether there is a pool for what is wanted with blocks of so many sectors.
fn suits(wanted: &Wanted, sectors: u64) -> bool
    requires range { IsInRange wanted.now }
    requires allowed { IsBlockSize sectors }
    ensures { IsTrue result ↔ Suits wanted.now sectors }
{
    are_enough(wanted, sectors) && wanted.volumes <= most_volumes(wanted, sectors)
}

/// The smallest block, in sectors, that suits what is wanted.
///
/// Errors: `TooMany` if none does.
fn smallest_block(wanted: &Wanted, smallest: u64, largest: u64) -> Result<u64, Unfit>
    requires range { IsInRange wanted.now }
    requires blocks { AreBlocks wanted.now smallest largest }
    ensures { MatchResult result (IsSmallest wanted.now) (IsUnfit wanted.now) }
{
    let mut sectors = smallest;
    while !suits(wanted, sectors) {
        if sectors == largest {
            return Err(Unfit::TooMany {
                fit: most_volumes(wanted, sectors),
            });
        }
        sectors *= 2;
    }
    Ok(sectors)
}

/// The sizes of a pool with blocks of so many sectors, the smallest that suit.
fn sized(wanted: &Wanted, sectors: u64) -> Result<Geometry, Unfit>
    requires range { IsInRange wanted.now }
    requires smallest { IsSmallest wanted.now sectors }
    ensures { MatchResult result (IsSizedFor wanted.now) (IsUnfit wanted.now) }
{
    let data_blocks = blocks_for(wanted.size, sectors);
    let virtual_blocks = blocks_for(wanted.volume_size, sectors);
    let each = 1 + virtual_blocks.min(data_blocks) / 63;
    let metadata_blocks = metadata_for(data_blocks, wanted.volumes, each);
    // Sizes such as these are within the limits.
    match Geometry::new(sectors, virtual_blocks, metadata_blocks, data_blocks) {
        Ok(geometry) => Ok(geometry),
        Err(_) => Err(Unfit::OutOfRange),
    }
}

/// The sizes of a pool for what is wanted: the smallest blocks of 64 KiB to 1 MiB, a power of two, with which data, volumes and
/// metadata have room, or those of the block size that is wanted; as many blocks as the data and a volume need; and the least metadata in which so many volumes have room.
///
/// Errors: `OutOfRange` if a number is zero, no block has the block size, or no block that may be chosen is large enough; `TooMany`
/// if so many volumes have no room even with the largest of them.
pub fn sizes_for(wanted: &Wanted) -> Result<Geometry, Unfit>
    ensures sized { IfOk result (IsSizedFor wanted.now) }
    ensures unfit { IfErr result (IsUnfit wanted.now) }
{
    if wanted.size == 0 || wanted.volume_size == 0 || wanted.volumes == 0 {
        return Err(Unfit::OutOfRange);
    }
    let Some((smallest, largest)) = allowed_blocks(wanted) else {
        return Err(Unfit::OutOfRange);
    };
    if !are_enough(wanted, largest) {
        return Err(Unfit::OutOfRange);
    }
    match smallest_block(wanted, smallest, largest) {
        Ok(sectors) => sized(wanted, sectors),
        Err(unfit) => Err(unfit),
    }
}
