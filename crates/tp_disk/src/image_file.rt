//! What a disk needs of a file.

use std::io;
use std::os::unix::fs::FileExt;

/// A file that a [`FileDisk`](crate::FileDisk) reads and writes at offsets, and syncs.
pub trait ImageFile: FileExt {
    /// Waits until the data and the length of the file are on its device.
    fn sync_all(&self) -> io::Result<()>;

    /// Waits until the data that were written are on the device of the file.
    fn sync_data(&self) -> io::Result<()>;

    /// Drops the cached pages of the file that are on its device, so that the next reads come from
    /// there.
    fn drop_cached(&self) -> io::Result<()>;

    /// Whether a range of the file is a hole, which reads as zeros. False if the system cannot tell.
    fn is_hole(&self, from: u64, len: u64) -> bool;
}
