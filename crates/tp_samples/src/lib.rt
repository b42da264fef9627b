//! Pools over a disk in memory, and servers of pools, for tests of several crates.
#![tactic(auto)]

mod calls;
mod pools;
mod served;

pub use calls::{
    close, closed, create_snap, create_thin, delete, flush, grow, release, reserve,
    set_transaction_id, volume_blocks,
};
pub use pools::{
    MemPool, SECTOR, byte_at, empty, example, fill_of, opened, read, trim, write, write_zeroes,
};
pub use served::{MemServed, ROOM, opened_hub};
