//! Who is told how far long work is.

/// Who is told what was read and written, so far as it goes on.
pub trait Progress {
    /// So many bytes more were read.
    fn read(&mut self, bytes: usize);

    /// So many bytes more were written.
    fn written(&mut self, bytes: usize);
}

/// Nobody is told.
impl Progress for () {
    fn read(&mut self, _bytes: usize) {}

    fn written(&mut self, _bytes: usize) {}
}
