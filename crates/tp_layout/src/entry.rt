//! One entry of a node.

/// A key, and what stands under it.
///
/// | Node | Size | `key` (offset 0) | `value` (8) | `mapped` (16) | `size` (24) |
/// |---|---|---|---|---|---|
/// | leaf of a mapping tree | 16 | virtual block | data block | 0, not stored | 0, not stored |
/// | inner node of either kind | 16 | least key of the child | block of the child | 0, not stored | 0, not stored |
/// | leaf of the device tree | 32 | device id | root of the volume's tree | mapped blocks of the volume | blocks of the volume, 0 where they are as many as the pool's geometry says |
#[derive(Clone, Copy, Debug, PartialEq, Eq, Default)]
pub struct Entry {
    pub key: u64,
    pub value: u64,
    pub mapped: u64,
    pub size: u64,
}
