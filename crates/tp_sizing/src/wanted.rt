//! What a pool is to hold, and why there is none that does.
use thiserror::Error;

/// What a pool is to hold.
#[derive(Clone, Copy, Debug, PartialEq, Eq)]
pub struct Wanted {
    /// How many bytes all volumes together may hold.
    pub size: u64,
    /// The size of a volume, in bytes.
    pub volume_size: u64,
    /// How many volumes there may be, snapshots too.
    pub volumes: u64,
    /// The size of a data block, in bytes; without it the smallest that suits is chosen.
    pub block_size: Option<u64>,
}

/// Why there is no such pool.
#[derive(Clone, Copy, Debug, PartialEq, Eq, Error)]
pub enum Unfit {
    /// One of the first three is zero, or over what the largest blocks hold: 1 TiB of data, 16 TiB in a volume, with blocks of 1 MiB.
    /// Or no data block has the size that is wanted: these have 64, 128, 256 or 512 KiB, or 1 MiB.
    #[error("out of range")]
    OutOfRange,
    /// The metadata of so many volumes would take more than 65536 blocks, even with the largest data blocks.
    #[error("only {fit} volumes fit")]
    TooMany {
        /// How many volumes fit into a pool of that size, 3 at least.
        fit: u64,
    },
}
