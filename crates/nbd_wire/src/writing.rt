//! Writers of the server's replies. Each writes at a place of a buffer, changes nothing else of it, and answers the
//! place behind what it wrote.

ghost use Rattle.std.specs.Prelude.{◌≡◌, ◌≤◌, ◌<◌, ◌+◌, ◌^◌, if◌then◌else◌, length};
ghost use Rattle.nbd_wire.specs.Numbers.{bytes};
ghost use Rattle.nbd_wire.specs.declared.writing.ReplyType.TheVariants.{Server};
ghost use Rattle.nbd_wire.specs.declared.TheConstants.{OPTION_LIST};
ghost use Rattle.nbd_wire.specs.Replies.{Puts, greeting, option_reply, option_reply_head, export_info, export_reply, block_size_info, server_data, reply_code, simple_reply_head};

use crate::{
    GREETING_MAGIC, HANDSHAKE_FLAGS, INFO_BLOCK_SIZE, INFO_EXPORT, OPTION_LIST, OPTION_MAGIC,
    REPLY_MAGIC, SIMPLE_REPLY_MAGIC,
};
use byteorder::{BigEndian, ByteOrder};

/// The type of an option reply (`proto.md`, "Option reply types").
#[derive(Clone, Copy, Debug, PartialEq, Eq)]
pub enum ReplyType {
    /// `NBD_REP_ACK`: the option is done.
    Acknowledged,
    /// `NBD_REP_SERVER`: the name of a volume.
    Server,
    /// `NBD_REP_INFO`: information on a volume.
    Information,
    /// `NBD_REP_META_CONTEXT`: a meta context.
    Context,
    /// `NBD_REP_ERR_UNSUP`: the option is not known.
    Unsupported,
    /// `NBD_REP_ERR_POLICY`: the option is known, and what it asks for is not allowed now.
    Policy,
    /// `NBD_REP_ERR_INVALID`: the data of the option has another form.
    Invalid,
    /// `NBD_REP_ERR_UNKNOWN`: there is no volume of this name.
    Unknown,
}

impl ReplyType {
    /// The number on the wire.
    pub fn code(self) -> u32
        ensures { result ≡ reply_code self }
    {
        match self {
            ReplyType::Acknowledged => 1,
            ReplyType::Server => 2,
            ReplyType::Information => 3,
            ReplyType::Context => 4,
            ReplyType::Unsupported => 0x8000_0001,
            ReplyType::Policy => 0x8000_0002,
            ReplyType::Invalid => 0x8000_0003,
            ReplyType::Unknown => 0x8000_0006,
        }
    }
}

pub(crate) fn put_u16(out: &mut [u8], at: usize, n: u16) -> usize
    requires { at + 2 ≤ length out.old }
    ensures bytes { Puts out.old at (bytes 2 n) out.new result }
    ensures end { result ≡ at + 2 }
    ensures fits { n < 2 ^ 16 }
    ensures len { length out.new ≡ length out.old }
{
    BigEndian::write_u16(&mut out[at..], n);
    at + 2
}

pub(crate) fn put_u32(out: &mut [u8], at: usize, n: u32) -> usize
    requires { at + 4 ≤ length out.old }
    ensures bytes { Puts out.old at (bytes 4 n) out.new result }
    ensures end { result ≡ at + 4 }
    ensures fits { n < 2 ^ 32 }
    ensures len { length out.new ≡ length out.old }
{
    BigEndian::write_u32(&mut out[at..], n);
    at + 4
}

pub(crate) fn put_u64(out: &mut [u8], at: usize, n: u64) -> usize
    requires { at + 8 ≤ length out.old }
    ensures bytes { Puts out.old at (bytes 8 n) out.new result }
    ensures end { result ≡ at + 8 }
    ensures fits { n < 2 ^ 64 }
    ensures len { length out.new ≡ length out.old }
{
    BigEndian::write_u64(&mut out[at..], n);
    at + 8
}

pub(crate) fn put_bytes(out: &mut [u8], at: usize, bytes: &[u8]) -> usize
    requires { at + length bytes.now ≤ length out.old }
    ensures bytes { Puts out.old at bytes.now out.new result }
    ensures end { result ≡ at + length bytes.now }
    ensures len { length out.new ≡ length out.old }
{
    let end = at + bytes.len();
    out[at..end].copy_from_slice(bytes);
    end
}

/// The fixed part of a simple reply, 16 bytes: the error, 0 for none, and the request's cookie (`proto.md`, "Simple reply
/// message").
pub fn put_simple_reply_head(out: &mut [u8], at: usize, error: u32, cookie: u64) -> usize
    requires { at + 16 ≤ length out.old }
    ensures bytes { Puts out.old at (simple_reply_head error cookie) out.new result }
    ensures end { result ≡ at + 16 }
    ensures len { length out.new ≡ length out.old }
{
    let after_magic = put_u32(out, at, SIMPLE_REPLY_MAGIC);
    let after_error = put_u32(out, after_magic, error);
    put_u64(out, after_error, cookie)
}

/// The greeting, 18 bytes (`proto.md`, "Newstyle negotiation").
pub fn put_greeting(out: &mut [u8], at: usize) -> usize
    requires { at + 18 ≤ length out.old }
    ensures bytes { Puts out.old at greeting out.new result }
    ensures end { result ≡ at + 18 }
    ensures len { length out.new ≡ length out.old }
{
    let after_magic = put_u64(out, at, GREETING_MAGIC);
    let after_option = put_u64(out, after_magic, OPTION_MAGIC);
    put_u16(out, after_option, HANDSHAKE_FLAGS)
}

/// The fixed part of an option reply, 20 bytes: the option that it replies to, its type, and how many bytes of data
/// follow (`proto.md`, "Fixed newstyle negotiation").
pub fn put_option_reply_head(
    out: &mut [u8],
    at: usize,
    option: u32,
    reply: ReplyType,
    len: u32,
) -> usize
    requires { at + 20 ≤ length out.old }
    ensures bytes { Puts out.old at (option_reply_head option reply len) out.new result }
    ensures end { result ≡ at + 20 }
    ensures len { length out.new ≡ length out.old }
{
    let after_magic = put_u64(out, at, REPLY_MAGIC);
    let after_option = put_u32(out, after_magic, option);
    let after_reply = put_u32(out, after_option, reply.code());
    put_u32(out, after_reply, len)
}

/// The information on an export, 12 bytes: its size in bytes and its transmission flags (`proto.md`, "NBD_INFO_EXPORT").
pub fn put_export_info(out: &mut [u8], at: usize, size: u64, flags: u16) -> usize
    requires { at + 12 ≤ length out.old }
    ensures bytes { Puts out.old at (export_info size flags) out.new result }
    ensures end { result ≡ at + 12 }
    ensures len { length out.new ≡ length out.old }
{
    let after_type = put_u16(out, at, INFO_EXPORT);
    let after_size = put_u64(out, after_type, size);
    put_u16(out, after_size, flags)
}

/// The information on block sizes, 14 bytes: the least, the preferred and the greatest, in bytes (`proto.md`,
/// "NBD_INFO_BLOCK_SIZE").
pub fn put_block_size_info(
    out: &mut [u8],
    at: usize,
    least: u32,
    preferred: u32,
    most: u32,
) -> usize
    requires { at + 14 ≤ length out.old }
    ensures bytes { Puts out.old at (block_size_info least preferred most) out.new result }
    ensures end { result ≡ at + 14 }
    ensures len { length out.new ≡ length out.old }
{
    let after_type = put_u16(out, at, INFO_BLOCK_SIZE);
    let after_least = put_u32(out, after_type, least);
    let after_preferred = put_u32(out, after_least, preferred);
    put_u32(out, after_preferred, most)
}

// The data of a reply SERVER: a name behind its length.
pub(crate) fn put_server_data(out: &mut [u8], at: usize, name: &[u8]) -> usize
    requires short { length name.now < 2 ^ 32 }
    requires room { at + (4 + length name.now) ≤ length out.old }
    ensures bytes { Puts out.old at (server_data name.now) out.new result }
    ensures end { result ≡ at + (4 + length name.now) }
    ensures len { length out.new ≡ length out.old }
{
    let after_len = put_u32(out, at, name.len() as u32);
    put_bytes(out, after_len, name)
}

/// A reply to LIST, which names a volume, 24 bytes and the name (`proto.md`, "NBD_REP_SERVER").
pub fn put_server_reply(out: &mut [u8], at: usize, name: &[u8]) -> usize
    requires short { 4 + length name.now < 2 ^ 32 }
    requires room { at + (24 + length name.now) ≤ length out.old }
    ensures bytes { Puts out.old at (option_reply OPTION_LIST Server (server_data name.now)) out.new result }
    ensures end { result ≡ at + (24 + length name.now) }
    ensures len { length out.new ≡ length out.old }
{
    let len = 4 + name.len() as u32;
    let data = put_option_reply_head(out, at, OPTION_LIST, ReplyType::Server, len);
    put_server_data(out, data, name)
}

/// The answer to EXPORT_NAME, 134 bytes, or 10 where the client wants no zeroes: the size in bytes, the transmission flags and the zeroes
/// (`proto.md`, "NBD_OPT_EXPORT_NAME").
pub fn put_export_reply(out: &mut [u8], at: usize, size: u64, flags: u16, no_zeroes: bool) -> usize
    requires { at + 134 ≤ length out.old }
    ensures bytes { Puts out.old at (export_reply size flags no_zeroes) out.new result }
    ensures end { result ≡ at + (if no_zeroes then 10 else 134) }
    ensures len { length out.new ≡ length out.old }
{
    let after_size = put_u64(out, at, size);
    let after_flags = put_u16(out, after_size, flags);
    if no_zeroes {
        return after_flags;
    }
    put_bytes(out, after_flags, &[0; 124])
}
