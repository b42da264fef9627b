//! How large a pool is, and where its parts lie on the disk.
ghost use Rattle.std.specs.Prelude.{◌≡◌, ◌≤◌, ◌<◌, ◌↔◌, IsOk, IfOk, IfErr, IsTrue};
ghost use Rattle.tp_model.specs.Geometry.{IsWithinLimits, fixed_part, area_blocks, count_blocks, sectors_of_volume, data_sector, sectors_of_image};
ghost use Rattle.tp_model.specs.Told.{IsToldSize, told_blocks};

use crate::numbers::Pb;
use crate::refusal::Refusal;
use std::marker::Model;

/// The four sizes of a pool, within their limits.
///
/// | Size | Limits |
/// |---|---|
/// | sectors of a data block | 128 to 2048, a multiple of 128 |
/// | blocks of each volume | 1 to 2^24 |
/// | metadata blocks, of 4096 bytes | the fixed part + 1024, to 65536 |
/// | data blocks | 1 to 1048576 |
#[derive(Clone, Copy, Debug, PartialEq, Eq)]
pub struct Geometry {
    block_sectors: u32,
    virtual_blocks: u32,
    metadata_blocks: u32,
    data_blocks: u32,
}

impl Model for Geometry {
    ghost use Rattle.tp_model.specs.Geometry as sizes;

    ghost Value = { sizes.Geometry };

    ghost view = { λ g. record { block_sectors = g.block_sectors; virtual_blocks = g.virtual_blocks; metadata_blocks = g.metadata_blocks; data_blocks = g.data_blocks } };

    ghost invariant = { λ g. sizes.IsWithinLimits (record { block_sectors = g.block_sectors; virtual_blocks = g.virtual_blocks; metadata_blocks = g.metadata_blocks; data_blocks = g.data_blocks }) };

    ghost inverse = { λ s. record { block_sectors = s.block_sectors; virtual_blocks = s.virtual_blocks; metadata_blocks = s.metadata_blocks; data_blocks = s.data_blocks } };
}

// How many count blocks hold this many counts.
fn count_blocks_of(counts: u32) -> u32
    requires { counts ≤ 1048576 }
    ensures { result ≡ count_blocks counts }
{
    (counts + 1023) / 1024
}

impl Geometry {
    /// The geometry of these sizes, or `BadGeometry` exactly where one is out of its limits.
    pub fn new(
        block_sectors: u64,
        virtual_blocks: u64,
        metadata_blocks: u64,
        data_blocks: u64,
    ) -> Result<Geometry, Refusal>
        ensures good { IfOk result (λ g. g ≡ record { block_sectors = block_sectors; virtual_blocks = virtual_blocks; metadata_blocks = metadata_blocks; data_blocks = data_blocks }) }
        ensures limits { IsOk result ↔ IsWithinLimits (record { block_sectors = block_sectors; virtual_blocks = virtual_blocks; metadata_blocks = metadata_blocks; data_blocks = data_blocks }) }
        ensures refused { IfErr result (λ e. e ≡ Refusal.BadGeometry) }
    {
        if !block_sectors.is_multiple_of(128) || !(128..=2048).contains(&block_sectors) {
            return Err(Refusal::BadGeometry);
        }
        if !(1..=16_777_216).contains(&virtual_blocks) || !(1..=1_048_576).contains(&data_blocks) {
            return Err(Refusal::BadGeometry);
        }
        if metadata_blocks > 65_536 {
            return Err(Refusal::BadGeometry);
        }
        let area = count_blocks_of(metadata_blocks as u32) + count_blocks_of(data_blocks as u32);
        if metadata_blocks < (2 + 2 * area + 1024) as u64 {
            return Err(Refusal::BadGeometry);
        }
        Ok(Geometry {
            block_sectors: block_sectors as u32,
            virtual_blocks: virtual_blocks as u32,
            metadata_blocks: metadata_blocks as u32,
            data_blocks: data_blocks as u32,
        })
    }

    /// Sectors of one data block.
    pub fn block_sectors(&self) -> u32
        ensures value { result ≡ self.now.block_sectors }
        ensures within { IsWithinLimits self.now }
    {
        self.block_sectors
    }

    /// Blocks of each volume.
    pub fn virtual_blocks(&self) -> u32
        ensures value { result ≡ self.now.virtual_blocks }
        ensures within { IsWithinLimits self.now }
    {
        self.virtual_blocks
    }

    /// Blocks of 4096 bytes for superblocks, counts and nodes.
    pub fn metadata_blocks(&self) -> u32
        ensures value { result ≡ self.now.metadata_blocks }
        ensures within { IsWithinLimits self.now }
    {
        self.metadata_blocks
    }

    /// Data blocks of the pool.
    pub fn data_blocks(&self) -> u32
        ensures value { result ≡ self.now.data_blocks }
        ensures within { IsWithinLimits self.now }
    {
        self.data_blocks
    }

    /// Count blocks for the metadata blocks, at the beginning of an area.
    pub fn metadata_count_blocks(&self) -> u32
        ensures value { result ≡ count_blocks self.now.metadata_blocks }
        ensures within { IsWithinLimits self.now }
    {
        count_blocks_of(self.metadata_blocks)
    }

    /// Count blocks for the data blocks, behind them.
    pub fn data_count_blocks(&self) -> u32
        ensures value { result ≡ count_blocks self.now.data_blocks }
        ensures within { IsWithinLimits self.now }
    {
        count_blocks_of(self.data_blocks)
    }

    /// Metadata blocks of one count area.
    pub fn area_blocks(&self) -> u32
        ensures value { result ≡ area_blocks self.now }
        ensures within { IsWithinLimits self.now }
    {
        count_blocks_of(self.metadata_blocks) + count_blocks_of(self.data_blocks)
    }

    /// Metadata blocks before those of the trees: two superblocks and two count areas.
    pub fn fixed_part(&self) -> u32
        ensures value { result ≡ fixed_part self.now }
        ensures within { IsWithinLimits self.now }
    {
        2 + 2 * self.area_blocks()
    }

    /// Sectors of a volume of the pool's own size.
    pub fn volume_sectors(&self) -> u64
        ensures { result ≡ sectors_of_volume self.now }
    {
        self.virtual_blocks as u64 * self.block_sectors as u64
    }

    /// Whether the record of a volume may tell this size: 0, which stands for the pool's own, or more blocks than that, 2^24 at most.
    pub fn may_tell(&self, size: u64) -> bool
        ensures { IsTrue result ↔ IsToldSize self.now size }
    {
        if size == 0 {
            return true;
        }
        size > self.virtual_blocks as u64 && size <= 16_777_216
    }

    /// How many blocks a volume has whose record tells this size.
    pub fn told_blocks(&self, size: u64) -> u64
        ensures blocks { result ≡ told_blocks self.now size }
        ensures within { IsWithinLimits self.now }
    {
        if size == 0 {
            self.virtual_blocks as u64
        } else {
            size
        }
    }

    /// The first sector of a data block of this pool.
    pub fn data_sector(&self, block: Pb) -> u64
        requires { block < self.now.data_blocks }
        ensures { result ≡ data_sector self.now block }
    {
        8 * self.metadata_blocks as u64 + block.number() as u64 * self.block_sectors as u64
    }

    /// Sectors of the image: the metadata blocks, then the data blocks.
    pub fn image_sectors(&self) -> u64
        ensures { result ≡ sectors_of_image self.now }
    {
        8 * self.metadata_blocks as u64 + self.data_blocks as u64 * self.block_sectors as u64
    }
}
