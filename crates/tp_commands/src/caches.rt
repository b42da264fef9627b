//! How much of a pool's metadata is kept in memory.

use tp_served::Room;

/// 4 MiB of changed metadata blocks, and 1 MiB of those that were read.
pub const ROOM: Room = Room {
    changed: 1024,
    read: 256,
};
