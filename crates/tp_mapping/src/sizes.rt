//! Sizes of devices, in virtual blocks, by what their records tell.

ghost use Rattle.std.specs.Prelude.{◌≡◌};
ghost use Rattle.tp_model.specs.Told.{told_blocks};
ghost use Rattle.tp_mapping.specs.Mapping.{size_for};

use tp_model::Geometry;

/// How many virtual blocks a device has whose record tells this size: 0 stands for the pool's own.
pub(crate) fn told_blocks(geometry: &Geometry, size: u32) -> u32
    ensures { result ≡ told_blocks geometry.now size }
{
    geometry.told_blocks(size as u64) as u32
}

/// The size that the record of a device with so many virtual blocks tells.
pub(crate) fn size_for(geometry: &Geometry, blocks: u32) -> u32
    ensures { result ≡ size_for geometry.now blocks }
{
    if blocks == geometry.virtual_blocks() {
        0
    } else {
        blocks
    }
}
