//! What comes to the hub.

use nbd_session::Profile;

/// One event: of a session, which are numbered from 0 to 63, or of the pool.
#[derive(Clone, Copy, Debug)]
pub enum Event<'a> {
    /// A client comes, takes the number of a session that is not open, and is offered so much.
    Open(u8, Profile),
    /// A session's client sends a piece, cut anywhere.
    Bytes(u8, &'a [u8]),
    /// The same, up to where a long request begins, or where a FLUSH is left of a request with FUA; where parts of one are left, one of them, and no text may come. Who asks so
    /// may have others asked between two parts.
    Parted(u8, &'a [u8]),
    /// A session's client goes.
    Hangup(u8),
    /// A line of text that is to be a message to the pool.
    Message(&'a [u8]),
    /// The pool's status line is wanted.
    Status,
    /// A volume's status line is wanted.
    ThinStatus(u32),
    /// A volume's size is wanted, and that of a block.
    Size(u32),
    /// A page of the blocks of a volume that are mapped is wanted, from this block on.
    Map(u32, u32),
    /// A page of the blocks is wanted, from the last number on, in which the second volume may differ from the first.
    Delta(u32, u32, u32),
    /// What was written is to be kept, as a client's FLUSH wants it.
    Flush,
}
