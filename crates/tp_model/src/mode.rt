//! What a pool lets its users do.

/// What a pool lets its users do until it is opened again.
#[derive(Clone, Copy, Debug, PartialEq, Eq)]
pub enum Mode {
    /// Volumes may be read and written.
    Writable,
    /// Volumes may be read. A pool is so where it was opened so, or where it wants a check.
    ReadOnly,
    /// The disk failed in a call that writes: nothing is read or written until the pool is opened again.
    Failed,
}
