//! Readers of the chunks of structured replies and of their data, for a client (`proto.md`,
//! "Structured reply chunk message"). `None` says that no such text is there: other bytes are
//! there, or too few.

ghost use Rattle.std.specs.Prelude.{◌≡◌, ◌≤◌, ◌<◌, ◌^◌, ◌++◌, ℕ, Bool, List, length, take, IfSome, IfNone};
ghost use Rattle.nbd_wire.specs.Numbers.{bytes};
ghost use Rattle.nbd_wire.specs.Chunks.{chunk};
ghost use Rattle.nbd_wire.specs.Contexts.{FitExtents, context_code, context_data, extent_text, extents_text};
ghost use Rattle.nbd_wire.specs.Received.{ReadIs};
ghost use Rattle.nbd_wire.specs.ReceivedChunks.{ChunkIs, chunk_in, chunk_type_of, context_data_in, context_of, data_in, error_in, extent_in, hole_in, status_in};

use crate::chunks::ChunkType;
use crate::contexts::MetaContext;
use crate::reading::{u16_of, u32_of, u64_of};
use crate::{ALLOCATION_CONTEXT, CHUNK_MAGIC, SINCE_CONTEXT};

/// A chunk of a structured reply.
#[derive(Clone, Copy, Debug)]
pub struct Chunk<'a> {
    /// It is the last one of its reply.
    pub is_last: bool,
    /// Its type.
    pub kind: ChunkType,
    /// The cookie of the request.
    pub cookie: u64,
    /// Its data.
    pub payload: &'a [u8],
}

// The type that this number on the wire is of, if it is of one of these.
#[tactic(auto, unfolding(crate::specs::ReceivedChunks::chunk_type_of))]
fn chunk_type_of(code: u16) -> Option<ChunkType>
    ensures { result ≡ chunk_type_of code }
{
    match code {
        0 => Some(ChunkType::Done),
        1 => Some(ChunkType::Data),
        2 => Some(ChunkType::Hole),
        5 => Some(ChunkType::Status),
        0x8001 => Some(ChunkType::Error),
        _ => None,
    }
}

#[tactic(auto, unfolding(crate::specs::ReceivedChunks::chunk_in))]
fn chunk_at(text: &[u8]) -> Option<(Chunk<'_>, &[u8])>
    ensures { ChunkIs result (chunk_in text.now) }
{
    if text.len() < 20 {
        return None;
    }
    let a = &text[4..];
    let b = &a[2..];
    let c = &b[2..];
    let d = &c[8..];
    let behind = text.split_at(20).1;
    let flags = u16_of(a);
    let len = u32_of(d) as usize;
    if u32_of(text) != CHUNK_MAGIC {
        return None;
    }
    if 1 < flags {
        return None;
    }
    if behind.len() < len {
        return None;
    }
    let is_last = flags == 1;
    let cookie = u64_of(c);
    let kind = chunk_type_of(u16_of(b))?;
    let (payload, rest) = behind.split_at(len);
    Some((
        Chunk {
            is_last,
            kind,
            cookie,
            payload,
        },
        rest,
    ))
}

/// A chunk at the front of a text, 20 bytes and its data, and what follows it.
pub fn read_chunk(text: &[u8]) -> Option<(Chunk<'_>, &[u8])>
    ensures found { IfSome result (λ r. (length r.0.payload.now < 2 ^ 32)
        × (text.now ≡ chunk r.0.is_last r.0.kind r.0.cookie r.0.payload.now ++ r.1.now)) }
    ensures none { IfNone result ((is_last : Bool) (kind : ChunkType) (cookie : ℕ) (payload rest : List ℕ)
        → cookie < 2 ^ 64 → length payload < 2 ^ 32
        → text.now ≡ chunk is_last kind cookie payload ++ rest → ⊥) }
    ensures again { (is_last : Bool) (kind : ChunkType) (cookie : ℕ) (payload rest : List ℕ)
        → cookie < 2 ^ 64 → length payload < 2 ^ 32
        → text.now ≡ chunk is_last kind cookie payload ++ rest
        → IfSome result (λ r. (r.0.is_last ≡ is_last) × (r.0.kind ≡ kind) × (r.0.cookie ≡ cookie)
        × (r.0.payload.now ≡ payload) × (r.1.now ≡ rest)) }
{
    chunk_at(text)
}

#[tactic(auto, unfolding(crate::specs::ReceivedChunks::data_in))]
fn data_at(payload: &[u8]) -> Option<(u64, &[u8])>
    ensures { ReadIs result (data_in payload.now) }
{
    if payload.len() < 8 {
        return None;
    }
    let offset = u64_of(payload);
    Some((offset, payload.split_at(8).1))
}

/// The data of a chunk of bytes: where they begin in the volume, and the bytes (`proto.md`,
/// "NBD_REPLY_TYPE_OFFSET_DATA").
pub fn read_data(payload: &[u8]) -> Option<(u64, &[u8])>
    ensures found { IfSome result (λ r. payload.now ≡ bytes 8 r.0 ++ r.1.now) }
    ensures none { IfNone result ((offset : ℕ) (given : List ℕ) → offset < 2 ^ 64
        → payload.now ≡ bytes 8 offset ++ given → ⊥) }
    ensures again { (offset : ℕ) (given : List ℕ) → offset < 2 ^ 64
        → payload.now ≡ bytes 8 offset ++ given
        → IfSome result (λ r. (r.0 ≡ offset) × (r.1.now ≡ given)) }
{
    data_at(payload)
}

#[tactic(auto, unfolding(crate::specs::ReceivedChunks::hole_in))]
fn hole_at(payload: &[u8]) -> Option<(u64, u32)>
    ensures { result ≡ hole_in payload.now }
{
    if payload.len() == 12 {
        let offset = u64_of(payload);
        let behind = &payload[8..];
        Some((offset, u32_of(behind)))
    } else {
        None
    }
}

/// The data of a chunk of zeroes: where they begin in the volume, and how many they are
/// (`proto.md`, "NBD_REPLY_TYPE_OFFSET_HOLE").
pub fn read_hole(payload: &[u8]) -> Option<(u64, u32)>
    ensures found { IfSome result (λ r. payload.now ≡ bytes 8 r.0 ++ bytes 4 r.1) }
    ensures none { IfNone result ((offset len : ℕ) → offset < 2 ^ 64 → len < 2 ^ 32
        → payload.now ≡ bytes 8 offset ++ bytes 4 len → ⊥) }
    ensures again { (offset len : ℕ) → offset < 2 ^ 64 → len < 2 ^ 32
        → payload.now ≡ bytes 8 offset ++ bytes 4 len
        → IfSome result (λ r. (r.0 ≡ offset) × (r.1 ≡ len)) }
{
    hole_at(payload)
}

#[tactic(auto, unfolding(crate::specs::ReceivedChunks::error_in))]
fn error_at(payload: &[u8]) -> Option<u32>
    ensures { result ≡ error_in payload.now }
{
    if payload.len() != 6 {
        return None;
    }
    let behind = &payload[4..];
    let error = u32_of(payload);
    if u16_of(behind) == 0 {
        Some(error)
    } else {
        None
    }
}

/// The error in the data of a chunk of that type, without a text (`proto.md`,
/// "NBD_REPLY_TYPE_ERROR").
pub fn read_error(payload: &[u8]) -> Option<u32>
    ensures found { IfSome result (λ error. payload.now ≡ bytes 4 error ++ bytes 2 0) }
    ensures none { IfNone result ((error : ℕ) → error < 2 ^ 32
        → payload.now ≡ bytes 4 error ++ bytes 2 0 → ⊥) }
    ensures again { (error : ℕ) → error < 2 ^ 32 → payload.now ≡ bytes 4 error ++ bytes 2 0
        → IfSome result (λ r. r ≡ error) }
{
    error_at(payload)
}

// The context that this number on the wire is of, if it is of one of these.
#[tactic(auto, unfolding(crate::specs::ReceivedChunks::context_of))]
fn context_of(code: u32) -> Option<MetaContext>
    ensures { result ≡ context_of code }
{
    if code == ALLOCATION_CONTEXT {
        Some(MetaContext::Allocation)
    } else if code == SINCE_CONTEXT {
        Some(MetaContext::Since)
    } else {
        None
    }
}

#[tactic(auto, unfolding(crate::specs::ReceivedChunks::status_in))]
fn status_at(payload: &[u8]) -> Option<(MetaContext, &[u8])>
    ensures { ReadIs result (status_in payload.now) }
{
    if payload.len() < 4 {
        return None;
    }
    let context = context_of(u32_of(payload))?;
    Some((context, payload.split_at(4).1))
}

/// The context in the data of a chunk of extents, and the extents (`proto.md`,
/// "NBD_REPLY_TYPE_BLOCK_STATUS").
pub fn read_status(payload: &[u8]) -> Option<(MetaContext, &[u8])>
    ensures found { IfSome result (λ r. payload.now ≡ bytes 4 (context_code r.0) ++ r.1.now) }
    ensures none { IfNone result ((context : MetaContext) (rest : List ℕ)
        → payload.now ≡ bytes 4 (context_code context) ++ rest → ⊥) }
    ensures again { (context : MetaContext) (rest : List ℕ)
        → payload.now ≡ bytes 4 (context_code context) ++ rest
        → IfSome result (λ r. (r.0 ≡ context) × (r.1.now ≡ rest)) }
{
    status_at(payload)
}

#[tactic(auto, unfolding(crate::specs::ReceivedChunks::extent_in))]
fn extent_at(text: &[u8]) -> Option<((u32, u32), &[u8])>
    ensures { ReadIs result (extent_in text.now) }
{
    if text.len() < 8 {
        return None;
    }
    let behind = &text[4..];
    let extent = (u32_of(text), u32_of(behind));
    Some((extent, text.split_at(8).1))
}

/// An extent at the front of a text, 8 bytes: how many bytes of the volume, and their flags; and
/// what follows it (`proto.md`, "NBD_REPLY_TYPE_BLOCK_STATUS").
pub fn read_extent(text: &[u8]) -> Option<((u32, u32), &[u8])>
    ensures found { IfSome result (λ r. text.now ≡ extent_text r.0.0 r.0.1 ++ r.1.now) }
    ensures none { IfNone result ((len flags : ℕ) (rest : List ℕ) → len < 2 ^ 32 → flags < 2 ^ 32
        → text.now ≡ extent_text len flags ++ rest → ⊥) }
    ensures again { (len flags : ℕ) (rest : List ℕ) → len < 2 ^ 32 → flags < 2 ^ 32
        → text.now ≡ extent_text len flags ++ rest
        → IfSome result (λ r. (r.0.0 ≡ len) × (r.0.1 ≡ flags) × (r.1.now ≡ rest)) }
{
    extent_at(text)
}

/// The number of extents in a text of extents only, which it writes to the front of `out`
/// (`proto.md`, "NBD_REPLY_TYPE_BLOCK_STATUS"). `None` says that the text is no list of extents, or
/// that `out` is too short for it.
pub fn read_extents(text: &[u8], out: &mut [(u32, u32)]) -> Option<usize>
    ensures found { IfSome result (λ count. text.now ≡ extents_text (take count out.new)) }
    ensures none { IfNone result ((extents : List (ℕ × ℕ)) → length extents ≤ length out.old
        → text.now ≡ extents_text extents → ⊥) }
    ensures again { (extents : List (ℕ × ℕ)) → FitExtents extents → text.now ≡ extents_text extents
        → IfSome result (λ count. (count ≡ length extents) × (take count out.new ≡ extents)) }
    ensures len { length out.new ≡ length out.old }
{
    let mut rest = text;
    let mut count = 0;
    while !rest.is_empty() {
        if count == out.len() {
            return None;
        }
        let (extent, behind) = extent_at(rest)?;
        out[count] = extent;
        count += 1;
        rest = behind;
    }
    Some(count)
}

#[tactic(auto, unfolding(crate::specs::ReceivedChunks::context_data_in))]
fn context_data_at(payload: &[u8]) -> Option<(u32, &[u8])>
    ensures { ReadIs result (context_data_in payload.now) }
{
    if payload.len() < 4 {
        return None;
    }
    let id = u32_of(payload);
    Some((id, payload.split_at(4).1))
}

/// The number and the name of a context in the data of a reply to LIST_META_CONTEXT or
/// SET_META_CONTEXT (`proto.md`, "NBD_REP_META_CONTEXT").
pub fn read_context_data(payload: &[u8]) -> Option<(u32, &[u8])>
    ensures found { IfSome result (λ r. payload.now ≡ context_data r.0 r.1.now) }
    ensures none { IfNone result ((id : ℕ) (name : List ℕ) → id < 2 ^ 32
        → payload.now ≡ context_data id name → ⊥) }
    ensures again { (id : ℕ) (name : List ℕ) → id < 2 ^ 32 → payload.now ≡ context_data id name
        → IfSome result (λ r. (r.0 ≡ id) × (r.1.now ≡ name)) }
{
    context_data_at(payload)
}
