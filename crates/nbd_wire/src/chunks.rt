//! Writers of the chunks of structured replies, of which the last one has the flag DONE (`proto.md`, "Structured reply chunk message").

ghost use Rattle.std.specs.Prelude.{◌≡◌, ◌≤◌, ◌<◌, ◌+◌, ◌^◌, length};
ghost use Rattle.nbd_wire.specs.Replies.{Puts};
ghost use Rattle.nbd_wire.specs.Chunks.{chunk_code, chunk_head, data_head, done_chunk, done_flag, error_chunk, hole_chunk};

use crate::CHUNK_MAGIC;
use crate::writing::{put_u16, put_u32, put_u64};

/// The type of a chunk (`proto.md`, "Structured reply types").
#[derive(Clone, Copy, Debug, PartialEq, Eq)]
pub enum ChunkType {
    /// `NBD_REPLY_TYPE_NONE`: the request is done, and nothing is told.
    Done,
    /// `NBD_REPLY_TYPE_OFFSET_DATA`: bytes of a READ, behind where they begin.
    Data,
    /// `NBD_REPLY_TYPE_OFFSET_HOLE`: where bytes of a READ are all zero, and are not sent.
    Hole,
    /// `NBD_REPLY_TYPE_BLOCK_STATUS`: extents of the volume, behind the number of their context.
    Status,
    /// `NBD_REPLY_TYPE_ERROR`: the request failed.
    Error,
}

impl ChunkType {
    /// The number on the wire.
    pub fn code(self) -> u16
        ensures { result ≡ chunk_code self }
    {
        match self {
            ChunkType::Done => 0,
            ChunkType::Data => 1,
            ChunkType::Hole => 2,
            ChunkType::Status => 5,
            ChunkType::Error => 0x8001,
        }
    }
}

/// The flags of a chunk (`proto.md`, "Structured reply flags"): the last one of a reply says that it is.
fn done_flag(is_last: bool) -> u16
    ensures { result ≡ done_flag is_last }
{
    if is_last { 1 } else { 0 }
}

/// The fixed part of a chunk of a reply, 20 bytes: whether it is the last one, its type, the request's cookie, and how many bytes follow.
pub(crate) fn put_chunk_head(
    out: &mut [u8],
    at: usize,
    is_last: bool,
    kind: ChunkType,
    cookie: u64,
    len: u32,
) -> usize
    requires { at + 20 ≤ length out.old }
    ensures bytes { Puts out.old at (chunk_head is_last kind cookie len) out.new result }
    ensures end { result ≡ at + 20 }
    ensures len { length out.new ≡ length out.old }
{
    let after_magic = put_u32(out, at, CHUNK_MAGIC);
    let after_flags = put_u16(out, after_magic, done_flag(is_last));
    let after_type = put_u16(out, after_flags, kind.code());
    let after_cookie = put_u64(out, after_type, cookie);
    put_u32(out, after_cookie, len)
}

/// What stands before bytes that a READ is answered, 28 bytes: the fixed part, and where the bytes begin in the volume (`proto.md`,
/// "NBD_REPLY_TYPE_OFFSET_DATA").
pub fn put_data_head(
    out: &mut [u8],
    at: usize,
    is_last: bool,
    cookie: u64,
    offset: u64,
    len: u32,
) -> usize
    requires short { 8 + len < 2 ^ 32 }
    requires room { at + 28 ≤ length out.old }
    ensures bytes { Puts out.old at (data_head is_last cookie offset len) out.new result }
    ensures end { result ≡ at + 28 }
    ensures len { length out.new ≡ length out.old }
{
    let after_head = put_chunk_head(out, at, is_last, ChunkType::Data, cookie, 8 + len);
    put_u64(out, after_head, offset)
}

/// Bytes of a READ that are all zero, 32 bytes: where they begin in the volume, and how many they are (`proto.md`, "NBD_REPLY_TYPE_OFFSET_HOLE").
pub fn put_hole_chunk(
    out: &mut [u8],
    at: usize,
    is_last: bool,
    cookie: u64,
    offset: u64,
    len: u32,
) -> usize
    requires { at + 32 ≤ length out.old }
    ensures bytes { Puts out.old at (hole_chunk is_last cookie offset len) out.new result }
    ensures end { result ≡ at + 32 }
    ensures len { length out.new ≡ length out.old }
{
    let after_head = put_chunk_head(out, at, is_last, ChunkType::Hole, cookie, 12);
    let after_offset = put_u64(out, after_head, offset);
    put_u32(out, after_offset, len)
}

/// An error without a text in answer to a request, 26 bytes (`proto.md`, "NBD_REPLY_TYPE_ERROR").
pub fn put_error_chunk(out: &mut [u8], at: usize, error: u32, cookie: u64) -> usize
    requires { at + 26 ≤ length out.old }
    ensures bytes { Puts out.old at (error_chunk error cookie) out.new result }
    ensures end { result ≡ at + 26 }
    ensures len { length out.new ≡ length out.old }
{
    let after_head = put_chunk_head(out, at, true, ChunkType::Error, cookie, 6);
    let after_error = put_u32(out, after_head, error);
    put_u16(out, after_error, 0)
}

/// The answer to a request that is done and has nothing to tell, 20 bytes (`proto.md`, "NBD_REPLY_TYPE_NONE").
pub fn put_done_chunk(out: &mut [u8], at: usize, cookie: u64) -> usize
    requires { at + 20 ≤ length out.old }
    ensures bytes { Puts out.old at (done_chunk cookie) out.new result }
    ensures end { result ≡ at + 20 }
    ensures len { length out.new ≡ length out.old }
{
    put_chunk_head(out, at, true, ChunkType::Done, cookie, 0)
}
