//! For what an image is opened.

/// For what an image is opened.
#[derive(Clone, Copy, Debug, PartialEq, Eq)]
pub enum Way {
    /// To read and write what is there.
    ToWrite,
    /// To read alone what is there.
    ToRead,
    /// To read and write, where it is made if it is not there, and gets its size.
    ToMake,
}
