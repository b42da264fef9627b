//! Readers of the server's frames, for a client. Each reads at the front of a text and gives what
//! follows it. `None` says that no such frame begins the text: other bytes are there, or too few.

ghost use Rattle.std.specs.Prelude.{◌≡◌, ◌<◌, ◌^◌, ◌++◌, ℕ, List, length, IfSome, IfNone};
ghost use Rattle.nbd_wire.specs.Replies.{block_size_info, export_info, export_reply, greeting, option_reply, server_data, simple_reply_head};
ghost use Rattle.nbd_wire.specs.Reading.{NameIs};
ghost use Rattle.nbd_wire.specs.Received.{OptionReplyIs, ReadIs, behind_padding, block_size_info_in, export_info_in, export_reply_in, greeting_in, is_padding, option_reply_in, reply_of, simple_reply_in};

use crate::contexts::string_first;
use crate::reading::{u16_of, u32_of, u64_of};
use crate::writing::ReplyType;
use crate::{
    GREETING_MAGIC, HANDSHAKE_FLAGS, INFO_BLOCK_SIZE, INFO_EXPORT, OPTION_MAGIC, REPLY_MAGIC,
    SIMPLE_REPLY_MAGIC,
};

/// The fixed part of a simple reply, behind its magic (`proto.md`, "Simple reply message").
#[derive(Clone, Copy, Debug, PartialEq, Eq)]
pub struct SimpleReply {
    /// The error, 0 for none.
    pub error: u32,
    /// The cookie of the request.
    pub cookie: u64,
}

/// An option reply (`proto.md`, "Fixed newstyle negotiation").
#[derive(Clone, Copy, Debug)]
pub struct OptionReply<'a> {
    /// The option that it replies to.
    pub option: u32,
    /// Its type.
    pub reply: ReplyType,
    /// Its data.
    pub payload: &'a [u8],
}

/// The information on an export (`proto.md`, "NBD_INFO_EXPORT").
#[derive(Clone, Copy, Debug, PartialEq, Eq)]
pub struct Export {
    /// Its size in bytes.
    pub size: u64,
    /// The transmission flags.
    pub flags: u16,
}

/// The information on block sizes, in bytes (`proto.md`, "NBD_INFO_BLOCK_SIZE").
#[derive(Clone, Copy, Debug, PartialEq, Eq)]
pub struct BlockSizes {
    /// The least.
    pub least: u32,
    /// The preferred.
    pub preferred: u32,
    /// The greatest.
    pub most: u32,
}

#[tactic(auto, unfolding(crate::specs::Received::simple_reply_in))]
fn simple_reply_at(text: &[u8]) -> Option<(SimpleReply, &[u8])>
    ensures { ReadIs result (simple_reply_in text.now) }
{
    if text.len() < 16 {
        return None;
    }
    let a = &text[4..];
    let b = &a[4..];
    let reply = SimpleReply {
        error: u32_of(a),
        cookie: u64_of(b),
    };
    if u32_of(text) == SIMPLE_REPLY_MAGIC {
        Some((reply, text.split_at(16).1))
    } else {
        None
    }
}

/// The fixed part of a simple reply, 16 bytes (`proto.md`, "Simple reply message"). The data of a
/// READ follows it if there is no error.
pub fn read_simple_reply_head(text: &[u8]) -> Option<(SimpleReply, &[u8])>
    ensures found { IfSome result (λ r. text.now ≡ simple_reply_head r.0.error r.0.cookie
        ++ r.1.now) }
    ensures none { IfNone result ((reply : SimpleReply) (rest : List ℕ) → reply.error < 2 ^ 32
        → reply.cookie < 2 ^ 64
        → text.now ≡ simple_reply_head reply.error reply.cookie ++ rest → ⊥) }
    ensures again { (reply : SimpleReply) (rest : List ℕ) → reply.error < 2 ^ 32
        → reply.cookie < 2 ^ 64
        → text.now ≡ simple_reply_head reply.error reply.cookie ++ rest
        → IfSome result (λ r. (r.0 ≡ reply) × (r.1.now ≡ rest)) }
{
    simple_reply_at(text)
}

#[tactic(auto, unfolding(crate::specs::Received::greeting_in))]
fn greeting_at(text: &[u8]) -> Option<&[u8]>
    ensures { NameIs result (greeting_in text.now) }
{
    if text.len() < 18 {
        return None;
    }
    let a = &text[8..];
    let b = &a[8..];
    if u64_of(text) != GREETING_MAGIC {
        return None;
    }
    if u64_of(a) != OPTION_MAGIC {
        return None;
    }
    if u16_of(b) == HANDSHAKE_FLAGS {
        Some(text.split_at(18).1)
    } else {
        None
    }
}

/// What follows the greeting, of 18 bytes (`proto.md`, "Newstyle negotiation").
pub fn read_greeting(text: &[u8]) -> Option<&[u8]>
    ensures found { IfSome result (λ rest. text.now ≡ greeting ++ rest.now) }
    ensures none { IfNone result ((rest : List ℕ) → text.now ≡ greeting ++ rest → ⊥) }
    ensures again { (rest : List ℕ) → text.now ≡ greeting ++ rest
        → IfSome result (λ r. r.now ≡ rest) }
{
    greeting_at(text)
}

// The type that this number on the wire is of, if it is of one of these.
#[tactic(auto, unfolding(crate::specs::Received::reply_of))]
fn reply_of(code: u32) -> Option<ReplyType>
    ensures { result ≡ reply_of code }
{
    match code {
        1 => Some(ReplyType::Acknowledged),
        2 => Some(ReplyType::Server),
        3 => Some(ReplyType::Information),
        4 => Some(ReplyType::Context),
        0x8000_0001 => Some(ReplyType::Unsupported),
        0x8000_0002 => Some(ReplyType::Policy),
        0x8000_0003 => Some(ReplyType::Invalid),
        0x8000_0006 => Some(ReplyType::Unknown),
        _ => None,
    }
}

#[tactic(auto, unfolding(crate::specs::Received::option_reply_in))]
fn option_reply_at(text: &[u8]) -> Option<(OptionReply<'_>, &[u8])>
    ensures { OptionReplyIs result (option_reply_in text.now) }
{
    if text.len() < 20 {
        return None;
    }
    let a = &text[8..];
    let b = &a[4..];
    let c = &b[4..];
    let behind = text.split_at(20).1;
    let len = u32_of(c) as usize;
    if u64_of(text) != REPLY_MAGIC {
        return None;
    }
    if behind.len() < len {
        return None;
    }
    let option = u32_of(a);
    let reply = reply_of(u32_of(b))?;
    let (payload, rest) = behind.split_at(len);
    Some((
        OptionReply {
            option,
            reply,
            payload,
        },
        rest,
    ))
}

/// An option reply, 20 bytes and its data (`proto.md`, "Fixed newstyle negotiation").
pub fn read_option_reply(text: &[u8]) -> Option<(OptionReply<'_>, &[u8])>
    ensures found { IfSome result (λ r. (length r.0.payload.now < 2 ^ 32)
        × (text.now ≡ option_reply r.0.option r.0.reply r.0.payload.now ++ r.1.now)) }
    ensures none { IfNone result ((option : ℕ) (reply : ReplyType) (payload rest : List ℕ)
        → option < 2 ^ 32 → length payload < 2 ^ 32
        → text.now ≡ option_reply option reply payload ++ rest → ⊥) }
    ensures again { (option : ℕ) (reply : ReplyType) (payload rest : List ℕ) → option < 2 ^ 32
        → length payload < 2 ^ 32
        → text.now ≡ option_reply option reply payload ++ rest
        → IfSome result (λ r. (r.0.option ≡ option) × (r.0.reply ≡ reply)
        × (r.0.payload.now ≡ payload) × (r.1.now ≡ rest)) }
{
    option_reply_at(text)
}

/// The name in the data of a reply to LIST (`proto.md`, "NBD_REP_SERVER").
pub fn read_server_data(text: &[u8]) -> Option<(&[u8], &[u8])>
    ensures found { IfSome result (λ r. (length r.0.now < 2 ^ 32)
        × (text.now ≡ server_data r.0.now ++ r.1.now)) }
    ensures none { IfNone result ((name rest : List ℕ) → length name < 2 ^ 32
        → text.now ≡ server_data name ++ rest → ⊥) }
    ensures again { (name rest : List ℕ) → length name < 2 ^ 32
        → text.now ≡ server_data name ++ rest
        → IfSome result (λ r. (r.0.now ≡ name) × (r.1.now ≡ rest)) }
{
    string_first(text)
}

#[tactic(auto, unfolding(crate::specs::Received::export_info_in))]
fn export_info_at(text: &[u8]) -> Option<(Export, &[u8])>
    ensures { ReadIs result (export_info_in text.now) }
{
    if text.len() < 12 {
        return None;
    }
    let a = &text[2..];
    let b = &a[8..];
    let export = Export {
        size: u64_of(a),
        flags: u16_of(b),
    };
    if u16_of(text) == INFO_EXPORT {
        Some((export, text.split_at(12).1))
    } else {
        None
    }
}

/// The information on an export, 12 bytes (`proto.md`, "NBD_INFO_EXPORT").
pub fn read_export_info(text: &[u8]) -> Option<(Export, &[u8])>
    ensures found { IfSome result (λ r. text.now ≡ export_info r.0.size r.0.flags ++ r.1.now) }
    ensures none { IfNone result ((export : Export) (rest : List ℕ) → export.size < 2 ^ 64
        → export.flags < 2 ^ 16
        → text.now ≡ export_info export.size export.flags ++ rest → ⊥) }
    ensures again { (export : Export) (rest : List ℕ) → export.size < 2 ^ 64 → export.flags < 2 ^ 16
        → text.now ≡ export_info export.size export.flags ++ rest
        → IfSome result (λ r. (r.0 ≡ export) × (r.1.now ≡ rest)) }
{
    export_info_at(text)
}

#[tactic(auto, unfolding(crate::specs::Received::block_size_info_in))]
fn block_size_info_at(text: &[u8]) -> Option<(BlockSizes, &[u8])>
    ensures { ReadIs result (block_size_info_in text.now) }
{
    if text.len() < 14 {
        return None;
    }
    let a = &text[2..];
    let b = &a[4..];
    let c = &b[4..];
    let sizes = BlockSizes {
        least: u32_of(a),
        preferred: u32_of(b),
        most: u32_of(c),
    };
    if u16_of(text) == INFO_BLOCK_SIZE {
        Some((sizes, text.split_at(14).1))
    } else {
        None
    }
}

/// The information on block sizes, 14 bytes (`proto.md`, "NBD_INFO_BLOCK_SIZE").
pub fn read_block_size_info(text: &[u8]) -> Option<(BlockSizes, &[u8])>
    ensures found { IfSome result (λ r. text.now ≡ block_size_info r.0.least r.0.preferred r.0.most
        ++ r.1.now) }
    ensures none { IfNone result ((sizes : BlockSizes) (rest : List ℕ) → sizes.least < 2 ^ 32
        → sizes.preferred < 2 ^ 32 → sizes.most < 2 ^ 32
        → text.now ≡ block_size_info sizes.least sizes.preferred sizes.most ++ rest → ⊥) }
    ensures again { (sizes : BlockSizes) (rest : List ℕ) → sizes.least < 2 ^ 32
        → sizes.preferred < 2 ^ 32 → sizes.most < 2 ^ 32
        → text.now ≡ block_size_info sizes.least sizes.preferred sizes.most ++ rest
        → IfSome result (λ r. (r.0 ≡ sizes) × (r.1.now ≡ rest)) }
{
    block_size_info_at(text)
}

#[tactic(auto, unfolding(crate::specs::Received::is_padding))]
fn is_padding(text: &[u8]) -> bool
    ensures { result ≡ is_padding text.now }
{
    text == [0u8; 124].as_slice()
}

#[tactic(auto, unfolding(crate::specs::Received::behind_padding))]
fn behind_padding(text: &[u8], no_zeroes: bool) -> Option<&[u8]>
    ensures { NameIs result (behind_padding no_zeroes text.now) }
{
    if no_zeroes {
        return Some(text);
    }
    if text.len() < 124 {
        return None;
    }
    let (zeroes, rest) = text.split_at(124);
    if is_padding(zeroes) { Some(rest) } else { None }
}

#[tactic(auto, unfolding(crate::specs::Received::export_reply_in))]
fn export_reply_at(text: &[u8], no_zeroes: bool) -> Option<(Export, &[u8])>
    ensures { ReadIs result (export_reply_in no_zeroes text.now) }
{
    if text.len() < 10 {
        return None;
    }
    let a = &text[8..];
    let export = Export {
        size: u64_of(text),
        flags: u16_of(a),
    };
    let rest = behind_padding(text.split_at(10).1, no_zeroes)?;
    Some((export, rest))
}

/// The answer to EXPORT_NAME, 134 bytes, or 10 if the client wants no zeroes (`proto.md`,
/// "NBD_OPT_EXPORT_NAME").
pub fn read_export_reply(text: &[u8], no_zeroes: bool) -> Option<(Export, &[u8])>
    ensures found { IfSome result (λ r. text.now ≡ export_reply r.0.size r.0.flags no_zeroes
        ++ r.1.now) }
    ensures none { IfNone result ((export : Export) (rest : List ℕ) → export.size < 2 ^ 64
        → export.flags < 2 ^ 16
        → text.now ≡ export_reply export.size export.flags no_zeroes ++ rest → ⊥) }
    ensures again { (export : Export) (rest : List ℕ) → export.size < 2 ^ 64 → export.flags < 2 ^ 16
        → text.now ≡ export_reply export.size export.flags no_zeroes ++ rest
        → IfSome result (λ r. (r.0 ≡ export) × (r.1.now ≡ rest)) }
{
    export_reply_at(text, no_zeroes)
}
