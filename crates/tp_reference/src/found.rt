//! What a pool shows after a crash, and whether a state of the reference model allows it.

use std::alloc::Global;
use tp_script::Buffer;

/// What a pool shows of a volume.
#[derive(Drop)]
pub struct FoundVolume {
    pub id: u32,
    pub line: Buffer,
    pub values: Buffer,
    /// The sectors of a volume whose values are not read yet.
    pub unread: u64,
}

impl FoundVolume {
    /// Nothing is found yet.
    pub fn new(alloc: Global, id: u32) -> FoundVolume {
        FoundVolume {
            id,
            line: Buffer::new(alloc),
            values: Buffer::new(alloc),
            unread: 0,
        }
    }
}

/// What a pool shows.
#[derive(Drop)]
pub struct Found {
    pub line: Buffer,
    pub volumes: Vec<FoundVolume>,
    /// The volumes of the metadata snapshot.
    pub snapshot: Vec<FoundVolume>,
    /// Whether a read failed, or gave a sector that no value fills.
    pub is_strange: bool,
    /// Whether the image has no pool.
    pub is_blank: bool,
}

impl Found {
    /// Nothing is found yet.
    pub fn new(alloc: Global) -> Found {
        Found {
            line: Buffer::new(alloc),
            volumes: Vec::new(alloc),
            snapshot: Vec::new(alloc),
            is_strange: false,
            is_blank: false,
        }
    }
}
