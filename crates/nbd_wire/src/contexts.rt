//! Meta contexts and block status (`proto.md`, "Metadata querying"): `base:allocation`, and `thinpool:since:` with what stands behind it, the id of
//! an older volume.

ghost use Rattle.std.specs.Prelude.{◌≡◌, ◌≤◌, ◌<◌, ◌+◌, ◌*◌, ◌++◌, ◌^◌, ℕ, List, [], Bool, true, false, bytes_eq, length, MatchOption, IfSome, IfNone};
ghost use Rattle.nbd_wire.specs.declared.writing.ReplyType.TheVariants.{Context};
ghost use Rattle.nbd_wire.specs.Contexts.{IsQuery, allocation, asks_for, base, context_code, context_data, extent_text, lists, since, since_of, since_or, status_head};
ghost use Rattle.nbd_wire.specs.Reading.{SaidIs, behind_string, has_string, string_at, told_by};
ghost use Rattle.nbd_wire.specs.Replies.{Puts, option_reply};

use crate::chunks::{ChunkType, put_chunk_head};
use crate::info::u32_first;
use crate::writing::{ReplyType, put_bytes, put_option_reply_head, put_u32};
use crate::{ALLOCATION_CONTEXT, SINCE_CONTEXT};

/// What BLOCK_STATUS tells of a volume.
#[derive(Clone, Copy, Debug, PartialEq, Eq)]
pub enum MetaContext {
    /// `base:allocation`: where it has data.
    Allocation,
    /// `thinpool:since:` and an id: where it may differ from the older volume of that id.
    Since,
}

impl MetaContext {
    /// The number on the wire.
    pub fn code(self) -> u32
        ensures { result ≡ context_code self }
    {
        match self {
            MetaContext::Allocation => ALLOCATION_CONTEXT,
            MetaContext::Since => SINCE_CONTEXT,
        }
    }
}

/// What a client says by LIST_META_CONTEXT or SET_META_CONTEXT.
#[derive(Clone, Copy, Debug)]
pub struct Query<'a> {
    /// The name of the volume.
    pub name: &'a [u8],
    /// One of the queries is the name of `base:allocation`, so SET_META_CONTEXT selects it.
    pub asks: bool,
    /// There are no queries, or one of them is that name or its namespace, so LIST_META_CONTEXT lists it.
    pub lists: bool,
    /// What stands behind `thinpool:since:` in the last query that begins so, and nothing where none does.
    pub since: &'a [u8],
}

/// What queries say.
#[derive(Clone, Copy, Debug)]
pub(crate) struct Said<'a> {
    /// One is the name of `base:allocation`.
    pub(crate) asks: bool,
    /// One is its namespace.
    pub(crate) all: bool,
    /// What stands behind `thinpool:since:` in the last one that begins so.
    pub(crate) since: &'a [u8],
}

// The text at the front, behind its length, and what follows it.
pub(crate) fn string_first(text: &[u8]) -> Option<(&[u8], &[u8])>
    ensures { MatchOption result (has_string text.now ≡ false)
        (λ r. (has_string text.now ≡ true) × (r.0.now ≡ string_at text.now) × (r.1.now ≡ behind_string text.now)) }
{
    let (len, rest) = u32_first(text)?;
    let len = len as usize;
    if rest.len() < len {
        return None;
    }
    Some(rest.split_at(len))
}

fn is_allocation(query: &[u8]) -> bool
    ensures { result ≡ bytes_eq query.now allocation }
{
    query == b"base:allocation".as_slice()
}

fn is_base(query: &[u8]) -> bool
    ensures { result ≡ bytes_eq query.now base }
{
    query == b"base:".as_slice()
}

fn is_since(front: &[u8]) -> bool
    ensures { result ≡ bytes_eq front.now since }
{
    front == b"thinpool:since:".as_slice()
}

// No bytes of a text.
fn none_of(text: &[u8]) -> &[u8]
    ensures { result.now ≡ [] }
{
    &text[..0]
}

// What stands behind `thinpool:since:` in a query that begins so, and else what was told before.
#[tactic(auto, using(crate::proofs::Queries::since_short))]
fn since_or<'a>(query: &'a [u8], before: &'a [u8]) -> &'a [u8]
    ensures { result.now ≡ since_or query.now before.now }
{
    if query.len() < 15 {
        return before;
    }
    let (front, behind) = query.split_at(15);
    if is_since(front) { behind } else { before }
}

// What so many queries say, where the text is exactly these.
fn told_by(count: u32, text: &[u8]) -> Option<Said<'_>>
    ensures { SaidIs result (told_by count text.now false false []) }
{
    let mut rest = text;
    let mut asks = false;
    let mut all = false;
    let mut since = none_of(text);
    for _ in 0..count {
        let (query, behind) = string_first(rest)?;
        asks |= is_allocation(query);
        all |= is_base(query);
        since = since_or(query, since);
        rest = behind;
    }
    if rest.is_empty() {
        Some(Said { asks, all, since })
    } else {
        None
    }
}

/// What the data of LIST_META_CONTEXT and SET_META_CONTEXT says, or `None` exactly where it is not a name and a list of queries, each text
/// behind its length, and nothing more.
pub fn read_query(payload: &[u8]) -> Option<Query<'_>>
    ensures found { IfSome result (λ query. (queries : List (List ℕ)) × IsQuery payload.now query.name.now queries
        × (query.asks ≡ asks_for queries) × (query.lists ≡ lists queries) × (query.since.now ≡ since_of queries)) }
    ensures none { IfNone result ((name : List ℕ) (queries : List (List ℕ)) → IsQuery payload.now name queries → ⊥) }
    ensures again { (name : List ℕ) (queries : List (List ℕ)) → IsQuery payload.now name queries
        → IfSome result (λ query. (query.name.now ≡ name) × (query.asks ≡ asks_for queries)
        × (query.lists ≡ lists queries) × (query.since.now ≡ since_of queries)) }
{
    let (name, rest) = string_first(payload)?;
    let (count, text) = u32_first(rest)?;
    let said = told_by(count, text)?;
    Some(Query {
        name,
        asks: said.asks,
        lists: (count == 0) | said.asks | said.all,
        since: said.since,
    })
}

/// A reply to LIST_META_CONTEXT or SET_META_CONTEXT, which tells the context `base:allocation` under a number, 39 bytes (`proto.md`, "NBD_REP_META_CONTEXT").
pub fn put_context_reply(out: &mut [u8], at: usize, option: u32, id: u32) -> usize
    requires { at + 39 ≤ length out.old }
    ensures bytes { Puts out.old at (option_reply option Context (context_data id allocation)) out.new result }
    ensures end { result ≡ at + 39 }
    ensures len { length out.new ≡ length out.old }
{
    let data = put_option_reply_head(out, at, option, ReplyType::Context, 19);
    let name = put_u32(out, data, id);
    put_bytes(out, name, b"base:allocation")
}

/// The same, which tells the context `thinpool:since:` of an id, given in decimal, under this number: 39 bytes and the id.
pub fn put_since_reply(out: &mut [u8], at: usize, option: u32, code: u32, id: &[u8]) -> usize
    requires short { 19 + length id.now < 2 ^ 32 }
    requires room { at + (39 + length id.now) ≤ length out.old }
    ensures bytes { Puts out.old at (option_reply option Context (context_data code (since ++ id.now))) out.new result }
    ensures end { result ≡ at + (39 + length id.now) }
    ensures len { length out.new ≡ length out.old }
{
    let len = 19 + id.len() as u32;
    let data = put_option_reply_head(out, at, option, ReplyType::Context, len);
    let name = put_u32(out, data, code);
    let behind = put_bytes(out, name, b"thinpool:since:");
    put_bytes(out, behind, id)
}

/// What stands before the extents that a BLOCK_STATUS is answered in one chunk, 24 bytes: the fixed part, and the number of the context
/// (`proto.md`, "NBD_REPLY_TYPE_BLOCK_STATUS"). The chunk of the last context is the last one.
pub fn put_status_head(
    out: &mut [u8],
    at: usize,
    is_last: bool,
    context: MetaContext,
    cookie: u64,
    extents: u32,
) -> usize
    requires short { 4 + 8 * extents < 2 ^ 32 }
    requires room { at + 24 ≤ length out.old }
    ensures bytes { Puts out.old at (status_head is_last context cookie extents) out.new result }
    ensures end { result ≡ at + 24 }
    ensures len { length out.new ≡ length out.old }
{
    let after_head = put_chunk_head(out, at, is_last, ChunkType::Status, cookie, 4 + 8 * extents);
    put_u32(out, after_head, context.code())
}

/// An extent, 8 bytes: how many bytes of the volume, and their flags (`proto.md`, "NBD_REPLY_TYPE_BLOCK_STATUS").
pub fn put_extent(out: &mut [u8], at: usize, len: u32, flags: u32) -> usize
    requires { at + 8 ≤ length out.old }
    ensures bytes { Puts out.old at (extent_text len flags) out.new result }
    ensures end { result ≡ at + 8 }
    ensures len { length out.new ≡ length out.old }
{
    let after_len = put_u32(out, at, len);
    put_u32(out, after_len, flags)
}
