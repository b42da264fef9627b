//! The superblock: one sector in each of two slots.
//!
//! | Offset | Size | Field |
//! |---|---|---|
//! | 0 | 8 | the text `THINPOOL` |
//! | 8 | 4 | version, 1 or 2 |
//! | 12 | 4 | flags: bit 0 says that the pool needs a check, the others are 0 |
//! | 16 | 8 | sequence |
//! | 24 | 8 | transaction id |
//! | 32 | 4 | sectors of a data block |
//! | 36 | 4 | blocks of a volume |
//! | 40 | 4 | metadata blocks |
//! | 44 | 4 | data blocks |
//! | 48 | 8 | root of the device tree |
//! | 56 | 8 | root of a held copy of the device tree, or 0; in version 1 always 0 |
//! | 64 | 448 | 0 |

ghost use Rattle.std.specs.Prelude.{◌≡◌, ◌≢◌, ◌⊎◌, ◌%◌, ◌^◌, ◌<◌, IfSome, IfNone, IsTrue, not};
ghost use Rattle.tp_layout.specs.Super.{IsGoodSuper, StandsIn, flags_of, slot_number, super_bytes, version_number};
ghost use Rattle.tp_layout.specs.SuperFields.{SuperFields};
ghost use Rattle.tp_layout.specs.declared.superblock.Superblock.{Superblock};
ghost use Rattle.tp_layout.specs.declared.superblock.Slot.{Slot};
ghost use Rattle.tp_layout.specs.declared.superblock.Version.{Version};
ghost use Rattle.tp_model.specs.Geometry.{IsTreeBlock, metadata_sector};

use crate::numbers::{SectorBytes, clear, is_zero, put_u32, put_u64, rest, u32_at, u64_at};
use tp_model::{Geometry, Mb};

/// The bytes `THINPOOL` as a number.
const MAGIC: u64 = 0x4c4f_4f50_4e49_4854;

/// The version of an image.
#[derive(Clone, Copy, Debug, PartialEq, Eq)]
pub enum Version {
    /// 1: each volume has the pool's own size.
    OneSize,
    /// 2: each volume has a size of its own.
    OwnSizes,
}

impl Version {
    /// The number of the version, 1 or 2.
    fn number(self) -> u32
        ensures { result ≡ version_number self }
    {
        match self {
            Version::OneSize => 1,
            Version::OwnSizes => 2,
        }
    }
}

/// The version of a number, if it is that of one.
fn version_of(number: u32) -> Option<Version>
    ensures some { IfSome result (λ version. number ≡ version_number version) }
    ensures none { IfNone result ((version : Version) → number ≡ version_number version → ⊥) }
{
    if number == 1 {
        return Some(Version::OneSize);
    }
    if number == 2 {
        return Some(Version::OwnSizes);
    }
    None
}

/// One of the two slots. Slot 0 is the first sector of metadata block 0, slot 1 that of metadata block 1.
#[derive(Clone, Copy, Debug, PartialEq, Eq)]
pub enum SlotId {
    Zero,
    One,
}

impl SlotId {
    /// The number of the slot, 0 or 1.
    pub fn number(self) -> u32
        ensures { result ≡ slot_number self }
    {
        match self {
            SlotId::Zero => 0,
            SlotId::One => 1,
        }
    }

    /// The slot that this one is not.
    pub fn other(self) -> SlotId
        ensures { result ≢ self }
    {
        match self {
            SlotId::Zero => SlotId::One,
            SlotId::One => SlotId::Zero,
        }
    }

    /// The sector of the slot.
    pub fn sector(self) -> u64
        ensures { result ≡ metadata_sector (slot_number self) }
    {
        8 * self.number() as u64
    }
}

/// A commit: everything that the superblock says of a pool.
#[derive(Clone, Copy, Debug, PartialEq, Eq)]
pub struct Superblock {
    /// The version of the image.
    pub version: Version,
    /// Whether the pool is read-only until it was checked.
    pub needs_check: bool,
    /// The number of this commit. Its remainder by 2 is the slot, and also tells which of the two count areas
    /// belongs to it: 0 is the first one.
    pub sequence: u64,
    /// The number that the pool's user set.
    pub transaction_id: u64,
    pub geometry: Geometry,
    /// The block of the device tree's root.
    pub root: Mb,
    /// The block of the root of a held copy of the device tree. Block 0, a superblock's, where none is held.
    pub held_root: Mb,
}

impl Superblock {
    /// The slot that this superblock belongs in, by its sequence.
    pub fn slot(&self) -> SlotId
        ensures { slot_number result ≡ self.now.sequence % 2 }
    {
        if self.sequence % 2 == 0 {
            SlotId::Zero
        } else {
            SlotId::One
        }
    }
}

/// What stands in a slot.
#[derive(Clone, Copy, Debug, PartialEq, Eq)]
pub enum Slot {
    /// Another magic: no superblock of a pool.
    Foreign,
    /// The magic, and a version that is neither 1 nor 2.
    Other,
    /// The magic and one of the versions, and a rule is broken: a flag over bit 0, a geometry out of its limits, a
    /// sequence of the other slot, a root that is no tree block, a held root in version 1, or a byte behind the fields that is not 0.
    Bad,
    /// A superblock.
    Good(Superblock),
}

/// Whether a number may be a held root in an image of this version: 0, and in version 2 also the number of a tree block.
fn may_be_held(version: Version, geometry: &Geometry, number: u64) -> bool
    ensures yes { IsTrue result → ((number ≡ 0) ⊎ IsTreeBlock geometry.now number) × (version ≡ Version.OneSize → number ≡ 0) × (number < 2 ^ 32) }
    ensures no { IsTrue (not result) → ((number ≡ 0) ⊎ IsTreeBlock geometry.now number) → (version ≡ Version.OneSize → number ≡ 0) → ⊥ }
{
    let fixed = geometry.fixed_part() as u64;
    let blocks = geometry.metadata_blocks() as u64;
    if number == 0 {
        return true;
    }
    match version {
        Version::OneSize => false,
        Version::OwnSizes => number >= fixed && number < blocks,
    }
}

/// The superblock of this slot and version whose fields stand behind the version, where they keep the rules.
fn fields_of(sector: &SectorBytes, slot: SlotId, version: Version) -> Option<Superblock>
    ensures found { IfSome result (λ s. IsGoodSuper slot s × SuperFields s sector.now) }
    ensures version { IfSome result (λ s. s.version ≡ version) }
    ensures none { IfNone result ((s : Superblock) → s.version ≡ version → IsGoodSuper slot s → SuperFields s sector.now → ⊥) }
{
    let flags = u32_at(sector, 12);
    if flags > 1 {
        return None;
    }
    let sequence = u64_at(sector, 16);
    if sequence % 2 != slot.number() as u64 {
        return None;
    }
    let block_sectors = u32_at(sector, 32) as u64;
    let virtual_blocks = u32_at(sector, 36) as u64;
    let metadata_blocks = u32_at(sector, 40) as u64;
    let data_blocks = u32_at(sector, 44) as u64;
    let Ok(geometry) = Geometry::new(block_sectors, virtual_blocks, metadata_blocks, data_blocks)
    else {
        return None;
    };
    let root = u64_at(sector, 48);
    if root < geometry.fixed_part() as u64 || root >= metadata_blocks {
        return None;
    }
    let held_root = u64_at(sector, 56);
    if !may_be_held(version, &geometry, held_root) {
        return None;
    }
    if !is_zero(rest(sector, 64)) {
        return None;
    }
    Some(Superblock {
        version,
        needs_check: flags == 1,
        sequence,
        transaction_id: u64_at(sector, 24),
        geometry,
        root: Mb::new(root as u32),
        held_root: Mb::new(held_root as u32),
    })
}

/// What stands in this slot, whose sector this is.
pub fn read_super(sector: &SectorBytes, slot: SlotId) -> Slot
    ensures found { StandsIn slot sector.now result }
    // No sector is of two kinds, and none spells two superblocks.
    ensures only { (other : Slot) → StandsIn slot sector.now other → result ≡ other }
{
    if u64_at(sector, 0) != MAGIC {
        return Slot::Foreign;
    }
    let Some(version) = version_of(u32_at(sector, 8)) else {
        return Slot::Other;
    };
    match fields_of(sector, slot, version) {
        Some(superblock) => Slot::Good(superblock),
        None => Slot::Bad,
    }
}

fn flags_number(needs_check: bool) -> u32
    ensures { result ≡ flags_of needs_check }
{
    if needs_check { 1 } else { 0 }
}

/// Writes a superblock over a sector, which belongs in the slot that [`Superblock::slot`] tells.
pub fn write_super(superblock: &Superblock, sector: &mut SectorBytes)
    ensures { sector.new ≡ super_bytes superblock.now }
{
    let geometry = superblock.geometry;
    clear(sector);
    put_u64(sector, 0, MAGIC);
    put_u32(sector, 8, superblock.version.number());
    put_u32(sector, 12, flags_number(superblock.needs_check));
    put_u64(sector, 16, superblock.sequence);
    put_u64(sector, 24, superblock.transaction_id);
    put_u32(sector, 32, geometry.block_sectors());
    put_u32(sector, 36, geometry.virtual_blocks());
    put_u32(sector, 40, geometry.metadata_blocks());
    put_u32(sector, 44, geometry.data_blocks());
    put_u64(sector, 48, superblock.root.number() as u64);
    put_u64(sector, 56, superblock.held_root.number() as u64);
}
