//! The frames of the NBD protocol (`proto.md`): the fixed newstyle handshake, and transmission with simple replies, or with structured ones.
//!
//! All numbers are big-endian. A frame of the client is read from the front of what came, once [`wanted`] says that all
//! of it is there. Replies are written into a buffer, at a place. A client writes its frames so, too, and reads replies
//! from the front of what came.
#![tactic(auto)]

mod chunk_reading;
mod chunks;
mod client;
mod contexts;
mod info;
mod laws;
mod reading;
mod replies;
mod writing;

pub use chunk_reading::{
    Chunk, read_chunk, read_context_data, read_data, read_error, read_extent, read_extents,
    read_hole, read_status,
};
pub use chunks::{ChunkType, put_data_head, put_done_chunk, put_error_chunk, put_hole_chunk};
pub use client::{
    put_client_flags, put_info_option, put_option, put_query, put_request, put_request_head,
};
pub use contexts::{
    MetaContext, Query, put_context_reply, put_extent, put_since_reply, put_status_head, read_query,
};
pub use info::info_name;
pub use laws::{
    frames_are_read_again, one_first_chunk, one_first_frame, one_first_reply, one_name, one_query,
    puts_are_read,
};
pub use reading::{fixed_len, read_frame, wanted, whole_len};
pub use replies::{
    BlockSizes, Export, OptionReply, SimpleReply, read_block_size_info, read_export_info,
    read_export_reply, read_greeting, read_option_reply, read_server_data, read_simple_reply_head,
};
pub use writing::{
    ReplyType, put_block_size_info, put_export_info, put_export_reply, put_greeting,
    put_option_reply_head, put_server_reply, put_simple_reply_head,
};

/// The first magic of the greeting, `NBDMAGIC` ("Newstyle negotiation").
pub const GREETING_MAGIC: u64 = 0x4e42_444d_4147_4943;

/// The second magic of the greeting, and the magic of each option, `IHAVEOPT` ("Newstyle negotiation").
pub const OPTION_MAGIC: u64 = 0x4948_4156_454f_5054;

/// The magic of each option reply ("Fixed newstyle negotiation").
pub const REPLY_MAGIC: u64 = 0x0003_e889_0455_65a9;

/// The magic of each request, `NBD_REQUEST_MAGIC` ("Request message").
pub const REQUEST_MAGIC: u32 = 0x2560_9513;

/// The magic of each simple reply, `NBD_SIMPLE_REPLY_MAGIC` ("Simple reply message").
pub const SIMPLE_REPLY_MAGIC: u32 = 0x6744_6698;

/// The magic of each chunk of a structured reply, `NBD_STRUCTURED_REPLY_MAGIC` ("Structured reply chunk message").
pub const CHUNK_MAGIC: u32 = 0x668e_33ef;

/// The handshake flags of the greeting, `NBD_FLAG_FIXED_NEWSTYLE` and `NBD_FLAG_NO_ZEROES` ("Handshake flags").
pub const HANDSHAKE_FLAGS: u16 = 3;

/// The option `NBD_OPT_EXPORT_NAME` ("Option types"). Its data is the name.
pub const OPTION_EXPORT_NAME: u32 = 1;

/// The option `NBD_OPT_ABORT` ("Option types").
pub const OPTION_ABORT: u32 = 2;

/// The option `NBD_OPT_LIST` ("Option types"). It has no data.
pub const OPTION_LIST: u32 = 3;

/// The option `NBD_OPT_INFO` ("Option types").
pub const OPTION_INFO: u32 = 6;

/// The option `NBD_OPT_GO` ("Option types").
pub const OPTION_GO: u32 = 7;

/// The option `NBD_OPT_STRUCTURED_REPLY` ("Option types"). It has no data.
pub const OPTION_STRUCTURED_REPLY: u32 = 8;

/// The option `NBD_OPT_LIST_META_CONTEXT` ("Option types").
pub const OPTION_LIST_META_CONTEXT: u32 = 9;

/// The option `NBD_OPT_SET_META_CONTEXT` ("Option types").
pub const OPTION_SET_META_CONTEXT: u32 = 10;

/// The number of the meta context `base:allocation`, which the server chooses ("Metadata querying").
pub const ALLOCATION_CONTEXT: u32 = 1;

/// The number of the meta contexts `thinpool:since:`, of which a session has one at most ("Metadata querying").
pub const SINCE_CONTEXT: u32 = 2;

/// The information type `NBD_INFO_EXPORT` ("Information types").
pub const INFO_EXPORT: u16 = 0;

/// The information type `NBD_INFO_BLOCK_SIZE` ("Information types").
pub const INFO_BLOCK_SIZE: u16 = 3;

/// The command type `NBD_CMD_READ` ("Request types").
pub const COMMAND_READ: u16 = 0;

/// The command type `NBD_CMD_WRITE` ("Request types").
pub const COMMAND_WRITE: u16 = 1;

/// The command type `NBD_CMD_DISC` ("Request types").
pub const COMMAND_DISC: u16 = 2;

/// The command type `NBD_CMD_FLUSH` ("Request types").
pub const COMMAND_FLUSH: u16 = 3;

/// The command type `NBD_CMD_TRIM` ("Request types").
pub const COMMAND_TRIM: u16 = 4;

/// The command type `NBD_CMD_WRITE_ZEROES` ("Request types").
pub const COMMAND_WRITE_ZEROES: u16 = 6;

/// The command type `NBD_CMD_BLOCK_STATUS` ("Request types").
pub const COMMAND_BLOCK_STATUS: u16 = 7;

/// How many bytes of data an option may have.
pub const MAX_OPTION: u32 = 8192;

/// How many bytes of data a request may have.
pub const MAX_REQUEST: u32 = 1_048_576;

/// How many bytes the longest frame of a client has, a WRITE of [`MAX_REQUEST`] bytes.
pub const MAX_FRAME: usize = 1_048_604;

/// What the client sends next.
#[derive(Clone, Copy, Debug, PartialEq, Eq)]
pub enum Kind {
    /// The client flags, of 4 bytes ("Client flags").
    Flags,
    /// Options of the handshake: 16 bytes and data ("Newstyle negotiation").
    Options,
    /// Requests of transmission: 28 bytes, and data for a WRITE ("Request message").
    Requests,
}

/// The fixed part of a request, behind its magic ("Request message").
#[derive(Clone, Copy, Debug, PartialEq, Eq)]
pub struct Request {
    /// The command flags.
    pub flags: u16,
    /// The command type, known or not.
    pub kind: u16,
    /// What the reply repeats.
    pub cookie: u64,
    /// Where the request begins, in bytes.
    pub offset: u64,
    /// How many bytes it reads or writes.
    pub len: u32,
}

/// One frame of the client, or a fixed part that ends the connection.
#[derive(Clone, Copy, Debug)]
pub enum Frame<'a> {
    /// The client flags: fixed newstyle, and whether the client wants no padding zeroes.
    ClientFlags { no_zeroes: bool },
    /// An option and its data.
    ClientOption { option: u32, payload: &'a [u8] },
    /// A request, and what a WRITE writes.
    Command { request: Request, payload: &'a [u8] },
    /// Other client flags, a wrong magic, an option of more than [`MAX_OPTION`] bytes, or a WRITE of more than
    /// [`MAX_REQUEST`]: the connection ends here.
    Malformed,
}
