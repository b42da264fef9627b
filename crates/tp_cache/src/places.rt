//! Memory for the blocks that caches keep, taken before there is a disk to keep them of.
ghost use Rattle.std.specs.Prelude.{◌≡◌, ◌<◌, [], IfOk, length, replicate};

use crate::BLOCK;
use crate::table::tables;
use crate::writing_out::run_of_blocks;
use lru::LruCache;
use std::alloc::{AllocError, Global};
use std::num::NonZeroUsize;

/// Places for changed metadata blocks, of which none is taken yet, and a table of all metadata blocks.
#[derive(Drop)]
pub struct Places {
    pub(crate) blocks: usize,
    pub(crate) index: Vec<u16>,
    pub(crate) held: Vec<u16>,
    pub(crate) owners: Vec<usize>,
    pub(crate) slots: Vec<[u8; BLOCK]>,
    pub(crate) run: Vec<u8>,
    ghost clean: { index.items ≡ replicate blocks 0 },
    ghost none: { held.items ≡ replicate blocks 0 },
    ghost as_many: { length owners.items ≡ length slots.items },
    ghost some: { 0 < length slots.items },
    ghost few: { length slots.items < 65536 },
}

impl Places {
    /// So many places, for a disk with so many metadata blocks.
    pub fn new(alloc: Global, metadata_blocks: usize, room: usize) -> Result<Places, AllocError>
        requires some { 0 < room }
        requires few { room < 65536 }
        ensures { IfOk result (λ places. (places.blocks ≡ metadata_blocks) × (length places.slots.items ≡ room)) }
    {
        let (index, held, owners, slots) = tables(alloc, metadata_blocks, room)?;
        Ok(Places {
            blocks: metadata_blocks,
            index,
            held,
            owners,
            slots,
            run: run_of_blocks(alloc)?,
        })
    }
}

/// Places for blocks that were read, of which none is taken yet. Each takes memory when it is.
#[derive(Drop)]
pub struct ReadPlaces {
    pub(crate) blocks: LruCache<usize, [u8; BLOCK]>,
    ghost none: { blocks.entries ≡ [] },
}

impl ReadPlaces {
    /// At most so many.
    pub fn new(alloc: Global, room: NonZeroUsize) -> Result<ReadPlaces, AllocError> {
        let blocks = LruCache::new(alloc, room)?;
        Ok(ReadPlaces { blocks })
    }
}
