//! The answer to a long READ in chunks, which tells where the volume has no data block.

ghost use Rattle.std.specs.Prelude.{◌≡◌, ◌≤◌, ◌<◌, ◌+◌, ◌==◌, false, IsTrue, length, take, drop, min, nat_le};
ghost use Rattle.std.specs.List.{list_all};
ghost use Rattle.tp_model.specs.Slots.{listed};
ghost use Rattle.tp_model.specs.Clauses.{PoolCall};
ghost use Rattle.nbd_wire.specs.Chunks.{data_chunk};
ghost use Rattle.nbd_wire.specs.Replies.{Puts};
ghost use Rattle.nbd_session.specs.Requests.{IsWhole, known_bytes};
ghost use Rattle.nbd_session.specs.Session.{ReadsLong, SeeksFrom, SeeksHoles, TellsGiven};
ghost use Rattle.nbd_session.specs.Spans.{as_pairs};
ghost use Rattle.nbd_session.specs.Status.{bytes_of, first_block};
ghost use Rattle.nbd_session.specs.Holes.{IsHoled, any_blank, content_len, content_text, contents_len, contents_text, has_blank, is_blank, may_be_cut, read_extents, read_text, shorter_text, wants_one_chunk};

use crate::answer::{put_read_chunk_head, put_refusal_chunk};
use crate::spans::{Span, Spans, between, push_data, spans_of};
use crate::status::{blocks_to, first_block, unit_of};
use nbd_wire::{MetaContext, Request, put_data_head, put_hole_chunk};
use tp_listings::{Extent, page_of};
use tp_model::{DevId, Slot, Slots, Vb, Walked};

/// As many bytes as the least block has. Shorter READs are not looked over for holes, and each block is a multiple of it.
const LEAST_BLOCK: u32 = 65_536;

/// As many blocks of that size as a READ lies in at most.
const MOST_PIECES: u32 = 17;

/// Whether a READ has as many bytes as the least block.
pub(crate) fn may_have_holes(request: &Request) -> bool
    ensures value { result ≡ nat_le 65536 request.now.len }
    ensures long { IsTrue result → 65536 ≤ request.now.len }
    ensures short { result ≡ false → request.now.len < 65536 }
{
    request.len >= LEAST_BLOCK
}

/// Bytes that are tested for zeros together.
const STRIDE: usize = 512;

/// Returns the bitwise OR of all bytes.
fn bits_of(bytes: &[u8]) -> u8
    ensures { (result == 0) ≡ list_all (λ b. b == 0) bytes.now }
{
    let mut seen = 0;
    for byte in bytes {
        seen |= *byte;
    }
    seen
}

/// Whether all bytes are zero.
fn are_zero(bytes: &[u8]) -> bool
    ensures { result ≡ list_all (λ b. b == 0) bytes.now }
{
    for stride in bytes.chunks(STRIDE) {
        if bits_of(stride) != 0 {
            return false;
        }
    }
    true
}

/// Whether there are some bytes, and all are zero.
fn is_blank(bytes: &[u8]) -> bool
    ensures { result ≡ is_blank bytes.now }
{
    let is_zero = are_zero(bytes);
    bytes.len() > 0 && is_zero
}

/// The first bytes, so many where there are as many, and those behind them.
fn cut_at(part: usize, bytes: &[u8]) -> (&[u8], &[u8])
    ensures front { result.0.now ≡ take (min part (length bytes.now)) bytes.now }
    ensures back { result.1.now ≡ drop (min part (length bytes.now)) bytes.now }
{
    bytes.split_at(part.min(bytes.len()))
}

/// Whether a piece of some bytes is all zero: the first has so many bytes, each other as many as the least block, and the last what is left.
fn any_blank(first: usize, bytes: &[u8]) -> bool
    ensures { result ≡ any_blank 17 first bytes.now }
{
    let mut rest = bytes;
    let mut part = first;
    for _ in 0..MOST_PIECES {
        let (piece, behind) = cut_at(part, rest);
        if is_blank(piece) {
            return true;
        }
        rest = behind;
        part = LEAST_BLOCK as usize;
    }
    false
}

/// Whether a piece of what a READ gave, which stands behind the head of its one chunk, is all zero.
pub(crate) fn has_blank(request: &Request, reply: &[u8]) -> bool
    requires { 28 ≤ length reply.now }
    ensures { result ≡ has_blank request.now (drop 28 reply.now) }
{
    let least = LEAST_BLOCK as u64;
    any_blank(
        (least - request.offset % least) as usize,
        reply.split_at(28).1,
    )
}

/// Whether one chunk alone is wanted, by the flag DF.
fn wants_one_chunk(request: &Request) -> bool
    ensures { result ≡ wants_one_chunk request.now }
{
    request.flags / 4 % 2 == 1
}

/// All bytes of a READ in extents, by a page of the blocks that are mapped.
fn read_spans(unit: u64, request: &Request, runs: &[Extent], blocks: u32) -> Spans
    requires unit { unit ≤ 1048576 }
    requires few { length runs.now ≤ 7 }
    requires inside { request.now.offset + request.now.len < 18446744073709551616 }
    ensures spans { as_pairs result.items ≡ read_extents unit request.now runs.now blocks }
    ensures all { bytes_of (as_pairs result.items) ≡ request.now.len }
    ensures few { length result.items ≤ 16 }
{
    let most = request.offset + request.len as u64;
    let end = between(request.offset, most, unit * blocks as u64);
    let mut spans = spans_of(MetaContext::Allocation, unit, request.offset, end, runs);
    push_data(&mut spans, end, most);
    spans
}

/// Whether an extent is data, and no hole.
fn is_data(span: &Span) -> bool
    ensures { result ≡ (span.now.flags == 0) }
{
    span.flags == 0
}

/// How many bytes the chunk of an extent has.
fn content_len(span: &Span) -> u64
    ensures value { result ≡ content_len (span.now.len, span.now.flags) }
    ensures most { result ≤ 4294967323 }
{
    if is_data(span) {
        28 + span.len as u64
    } else {
        32
    }
}

/// How many bytes the chunks of some extents have.
fn contents_len(spans: &[Span]) -> u64
    requires { length spans.now ≤ 16 }
    ensures { result ≡ contents_len (as_pairs spans.now) }
{
    let mut sum = 0;
    for span in spans {
        sum += content_len(span);
    }
    sum
}

/// How many extents there are.
fn count_of(spans: &[Span]) -> usize
    ensures { result ≡ length (as_pairs spans.now) }
{
    spans.len()
}

/// Whether a READ may be answered by these extents.
fn may_be_cut(request: &Request, spans: &[Span]) -> bool
    ensures { result ≡ may_be_cut request.now (as_pairs spans.now) }
{
    let is_one = wants_one_chunk(request);
    let count = count_of(spans);
    !is_one || count == 1
}

/// Puts a chunk of bytes that stand further behind in the buffer.
fn put_data(
    out: &mut [u8],
    at: usize,
    from: usize,
    is_last: bool,
    cookie: u64,
    offset: u64,
    len: u32,
) -> usize
    requires short { 8 + len < 4294967296 }
    requires ahead { at + 28 ≤ from }
    requires inside { from + len ≤ length out.old }
    ensures bytes { Puts out.old at (data_chunk is_last cookie offset (take len (drop from out.old))) out.new result }
    ensures end { result ≡ at + (28 + len) }
    ensures len { length out.new ≡ length out.old }
{
    let place = put_data_head(out, at, is_last, cookie, offset, len);
    let count = len as usize;
    out.copy_within(from..from + count, place);
    place + count
}

/// Puts the chunk of an extent, whose bytes stand further behind in the buffer.
fn put_content(
    out: &mut [u8],
    at: usize,
    from: usize,
    is_last: bool,
    cookie: u64,
    offset: u64,
    span: &Span,
) -> usize
    requires short { span.now.len ≤ 1048576 }
    requires ahead { at + 32 ≤ from }
    requires inside { from + span.now.len ≤ length out.old }
    ensures bytes { Puts out.old at (content_text cookie is_last offset (span.now.len, span.now.flags) (drop from out.old)) out.new result }
    ensures end { result ≡ at + content_len (span.now.len, span.now.flags) }
    ensures inside { from + span.now.len ≤ length out.new }
    ensures len { length out.new ≡ length out.old }
{
    if is_data(span) {
        put_data(out, at, from, is_last, cookie, offset, span.len)
    } else {
        put_hole_chunk(out, at, is_last, cookie, offset, span.len)
    }
}

/// Puts a chunk for each extent of the volume from a byte on. Their bytes stand from a place of the buffer on, up to its end.
fn put_contents(out: &mut [u8], place: usize, cookie: u64, offset: u64, spans: &[Span]) -> usize
    requires few { length out.old ≤ place + 1048576 }
    requires inside { offset + length out.old < 18446744073709551616 + place }
    requires all { place + bytes_of (as_pairs spans.now) ≡ length out.old }
    requires room { contents_len (as_pairs spans.now) + 4 ≤ place }
    ensures text { take result out.new ≡ contents_text cookie offset (as_pairs spans.now) (drop place out.old) }
    ensures fits { result ≤ length out.new }
    ensures len { length out.new ≡ length out.old }
{
    let mut at = 0;
    let mut from = place;
    let mut here = offset;
    let mut left = spans.len();
    for span in spans {
        left -= 1;
        at = put_content(out, at, from, left == 0, cookie, here, span);
        from += span.len as usize;
        here += span.len as u64;
    }
    at
}

/// Puts the chunks of a READ, whose bytes stand behind the head of its one chunk. They go to the end of the buffer first, and from there each to its place.
fn put_chunks(out: &mut [u8], request: &Request, spans: &[Span]) -> usize
    requires most { request.now.len ≤ 1048576 }
    requires inside { request.now.offset + request.now.len < 18446744073709551616 }
    requires all { bytes_of (as_pairs spans.now) ≡ request.now.len }
    requires cut { contents_len (as_pairs spans.now) ≤ request.now.len }
    requires room { 2097172 ≤ length out.old }
    ensures text { take result out.new ≡ contents_text request.now.cookie request.now.offset (as_pairs spans.now) (take request.now.len (drop 28 out.old)) }
    ensures fits { result ≤ length out.new }
    ensures len { length out.new ≡ length out.old }
{
    let len = request.len as usize;
    let place = out.len() - len;
    out.copy_within(28..28 + len, place);
    put_contents(out, place, request.cookie, request.offset, spans)
}

/// Puts the chunks of a READ, or its bytes in one chunk where these would have more bytes than are read.
fn put_shorter(out: &mut [u8], request: &Request, spans: &[Span]) -> usize
    requires few { length spans.now ≤ 16 }
    requires most { request.now.len ≤ 1048576 }
    requires inside { request.now.offset + request.now.len < 18446744073709551616 }
    requires all { bytes_of (as_pairs spans.now) ≡ request.now.len }
    requires room { 2097172 ≤ length out.old }
    ensures text { take result out.new ≡ shorter_text request.now (as_pairs spans.now) (take request.now.len (drop 28 out.old)) }
    ensures fits { result ≤ length out.new }
    ensures len { length out.new ≡ length out.old }
{
    let bytes = contents_len(spans);
    let len = request.len as u64;
    if bytes <= len {
        put_chunks(out, request, spans)
    } else {
        put_read_chunk_head(out, request)
    }
}

/// Puts the answer to a READ in chunks, by its extents.
fn put_text(out: &mut [u8], request: &Request, spans: &[Span]) -> usize
    requires few { length spans.now ≤ 16 }
    requires most { request.now.len ≤ 1048576 }
    requires inside { request.now.offset + request.now.len < 18446744073709551616 }
    requires all { bytes_of (as_pairs spans.now) ≡ request.now.len }
    requires room { 2097172 ≤ length out.old }
    ensures text { take result out.new ≡ read_text request.now (as_pairs spans.now) (take request.now.len (drop 28 out.old)) }
    ensures fits { result ≤ length out.new }
    ensures len { length out.new ≡ length out.old }
{
    if may_be_cut(request, spans) {
        put_shorter(out, request, spans)
    } else {
        put_read_chunk_head(out, request)
    }
}

/// Puts the answer to a READ in chunks, by a page of the blocks that are mapped.
fn put_by_page(out: &mut [u8], unit: u64, request: &Request, runs: &[Extent], blocks: u32) -> usize
    requires unit { unit ≤ 1048576 }
    requires few { length runs.now ≤ 7 }
    requires most { request.now.len ≤ 1048576 }
    requires inside { request.now.offset + request.now.len < 18446744073709551616 }
    requires room { 2097172 ≤ length out.old }
    ensures text { take result out.new ≡ read_text request.now (read_extents unit request.now runs.now blocks) (take request.now.len (drop 28 out.old)) }
    ensures fits { result ≤ length out.new }
    ensures len { length out.new ≡ length out.old }
{
    let spans = read_spans(unit, request, runs, blocks);
    put_text(out, request, &spans)
}

/// Puts the answer to a READ in chunks, by what a walk from its first block on listed.
pub(crate) fn put_holes(
    out: &mut [u8],
    unit: u64,
    from: Vb,
    request: &Request,
    slots: &[Slot],
) -> usize
    requires unit { 0 < unit }
    requires large { unit ≤ 1048576 }
    requires from { from ≡ first_block unit request.now }
    requires some { 0 < request.now.len }
    requires most { request.now.len ≤ 1048576 }
    requires inside { request.now.offset + request.now.len < 18446744073709551616 }
    requires room { 2097172 ≤ length out.old }
    ensures holes { IsHoled unit request.now (take request.now.len (drop 28 out.old)) (listed slots.now) (take result out.new) }
    ensures fits { result ≤ length out.new }
    ensures len { length out.new ≡ length out.old }
{
    let page = page_of(&[], slots, from, blocks_to(unit, request));
    put_by_page(out, unit, request, &page.extents, page.end)
}

/// Asks for a walk over the blocks of a READ, whose bytes stand behind the head of its one chunk, and answers by what that told.
fn seek_holes<V: Walked>(
    pool: &mut V,
    volume: DevId,
    unit: u64,
    from: Vb,
    request: &Request,
    out: &mut [u8],
) -> usize
    requires unit { 0 < unit }
    requires large { unit ≤ 1048576 }
    requires from { from ≡ first_block unit request.now }
    requires some { 0 < request.now.len }
    requires most { request.now.len ≤ 1048576 }
    requires inside { request.now.offset + request.now.len < 18446744073709551616 }
    requires room { 2097172 ≤ length out.old }
    ensures sought { SeeksHoles V.view.outline (PoolCall V.view) volume unit request.now (take request.now.len (drop 28 out.old)) pool.old (take result out.new) pool.new }
    ensures fits { result ≤ length out.new }
    ensures len { length out.new ≡ length out.old }
{
    let mut slots = Slots::new();
    match pool.walk(volume, from, &mut slots) {
        Ok(()) => put_holes(out, unit, from, request, &slots),
        Err(_) => put_read_chunk_head(out, request),
    }
}

/// The same, where the block in which the READ begins may be one of a volume.
fn seek_from<V: Walked>(
    pool: &mut V,
    volume: DevId,
    unit: u64,
    request: &Request,
    out: &mut [u8],
) -> usize
    requires unit { 0 < unit }
    requires large { unit ≤ 1048576 }
    requires some { 0 < request.now.len }
    requires most { request.now.len ≤ 1048576 }
    requires inside { request.now.offset + request.now.len < 18446744073709551616 }
    requires room { 2097172 ≤ length out.old }
    ensures sought { SeeksFrom V.view.outline (PoolCall V.view) volume unit request.now (take request.now.len (drop 28 out.old)) pool.old (take result out.new) pool.new }
    ensures fits { result ≤ length out.new }
    ensures len { length out.new ≡ length out.old }
{
    let Some(from) = first_block(unit, request) else {
        return put_read_chunk_head(out, request);
    };
    seek_holes(pool, volume, unit, from, request, out)
}

/// Answers a READ whose bytes stand behind the head of its one chunk: where a piece of them is all zero, a walk tells of holes.
fn tell_given<V: Walked>(
    pool: &mut V,
    volume: DevId,
    unit: u64,
    request: &Request,
    out: &mut [u8],
) -> usize
    requires unit { 0 < unit }
    requires large { unit ≤ 1048576 }
    requires some { 0 < request.now.len }
    requires most { request.now.len ≤ 1048576 }
    requires inside { request.now.offset + request.now.len < 18446744073709551616 }
    requires room { 2097172 ≤ length out.old }
    ensures told { TellsGiven V.view.outline (PoolCall V.view) volume unit request.now (take request.now.len (drop 28 out.old)) pool.old (take result out.new) pool.new }
    ensures fits { result ≤ length out.new }
    ensures len { length out.new ≡ length out.old }
{
    let len = request.len as usize;
    if has_blank(request, &out[..28 + len]) {
        seek_from(pool, volume, unit, request, out)
    } else {
        put_read_chunk_head(out, request)
    }
}

/// A READ in chunks of as many bytes as the least block has, or more. Its bytes go to their place behind the head of one chunk.
pub(crate) fn read_long<V: Walked>(
    pool: &mut V,
    volume: DevId,
    request: &Request,
    out: &mut [u8],
) -> usize
    requires form { IsWhole (known_bytes (V.view.outline pool.old).geometry (V.view.more pool.old) volume) request.now }
    requires some { 0 < request.now.len }
    requires inside { request.now.offset + request.now.len < 18446744073709551616 }
    requires room { 2097172 ≤ length out.old }
    ensures answer { ReadsLong V.view.outline (PoolCall V.view) volume request.now pool.old (take result out.new) pool.new }
    ensures fits { result ≤ length out.new }
    ensures len { length out.new ≡ length out.old }
{
    let unit = unit_of(&pool.geometry());
    let len = request.len as usize;
    match pool.read(volume, request.offset / 512, &mut out[28..28 + len]) {
        Ok(()) => tell_given(pool, volume, unit, request, out),
        Err(refusal) => put_refusal_chunk(out, refusal, request.cookie),
    }
}
