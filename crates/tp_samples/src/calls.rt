//! Calls of a pool that promise nothing: the contracts of the pool's own are long, and each function that makes such a call is proved under
//! all that they say.

use crate::pools::MemPool;
use tp_disk::MemDisk;
use tp_model::{DevId, Refusal};

pub fn create_thin(pool: &mut MemPool, id: DevId) -> Result<(), Refusal> {
    pool.create_thin(id)
}

pub fn create_snap(pool: &mut MemPool, id: DevId, origin: DevId) -> Result<(), Refusal> {
    pool.create_snap(id, origin)
}

pub fn delete(pool: &mut MemPool, id: DevId) -> Result<(), Refusal> {
    pool.delete(id)
}

pub fn grow(pool: &mut MemPool, id: DevId, blocks: u64) -> Result<(), Refusal> {
    pool.grow(id, blocks)
}

pub fn volume_blocks(pool: &mut MemPool, id: DevId) -> Result<u32, Refusal> {
    pool.volume_blocks(id)
}

pub fn set_transaction_id(pool: &mut MemPool, current: u64, next: u64) -> Result<(), Refusal> {
    pool.set_transaction_id(current, next)
}

pub fn reserve(pool: &mut MemPool) -> Result<(), Refusal> {
    pool.reserve_metadata_snap()
}

pub fn release(pool: &mut MemPool) -> Result<(), Refusal> {
    pool.release_metadata_snap()
}

pub fn flush(pool: &mut MemPool) -> Result<(), Refusal> {
    pool.flush()
}

pub fn close(pool: MemPool) -> (Result<(), Refusal>, MemDisk) {
    pool.close()
}

/// The disk of a pool whose closing is answered.
pub fn closed(pool: MemPool) -> Result<MemDisk, Refusal> {
    let (answer, disk) = close(pool);
    answer?;
    Ok(disk)
}
