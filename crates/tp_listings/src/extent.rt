//! Runs of blocks, and what is known of a volume.

/// A run of blocks: volumes' blocks, or data blocks. One that is listed has one block at least.
#[derive(Clone, Copy, Debug, Default, PartialEq, Eq)]
pub struct Extent {
    /// The number of its first block.
    pub first: u32,
    /// How many blocks it has.
    pub blocks: u32,
}

/// What a volume has of a pool. Sizes are in data blocks.
#[derive(Clone, Copy, Debug, PartialEq, Eq)]
pub struct Usage {
    /// The volume's id.
    pub id: u32,
    /// Its size.
    pub blocks: u32,
    /// How many of its blocks have a data block.
    pub mapped: u32,
    /// By how many fewer data blocks are in use when it is deleted, where no mapping is held.
    pub exclusive: u32,
}
