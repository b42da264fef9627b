//! Bytes that tests of several crates read.

/// The first 56 bytes of slot 0 of a fresh pool of 128 sectors, 16 virtual, 2048 metadata and 4 data blocks.
pub const FRESH: [u8; 56] = [
    0x54, 0x48, 0x49, 0x4e, 0x50, 0x4f, 0x4f, 0x4c, 2, 0, 0, 0, 0, 0, 0, 0, 0, 0, 0, 0, 0, 0, 0, 0,
    0, 0, 0, 0, 0, 0, 0, 0, 0x80, 0, 0, 0, 0x10, 0, 0, 0, 0, 8, 0, 0, 4, 0, 0, 0, 8, 0, 0, 0, 0, 0,
    0, 0,
];
