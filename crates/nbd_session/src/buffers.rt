//! Buffers that are given back to the system.

/// Gives the memory of a buffer back to the system.
///
/// The C library keeps large blocks that are freed in the process, once it has seen one of their
/// size freed. It does not count, and does not keep, what was cut off a block before.
pub fn give_back(mut bytes: Vec<u8>) {
    bytes.clear();
    bytes.shrink_to(1);
}
