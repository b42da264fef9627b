//! The answer to BLOCK_STATUS.

ghost use Rattle.std.specs.Prelude.{◌≡◌, ◌≤◌, ◌<◌, ◌+◌, ◌*◌, ◌++◌, ℕ, List, [], true, IfSome, IfNone, length, take};
ghost use Rattle.tp_model.specs.Slots.{listed};
ghost use Rattle.tp_model.specs.Calls.{Listed};
ghost use Rattle.tp_model.specs.Clauses.{PoolCall};
ghost use Rattle.tp_listings.specs.declared.extent.Extent.{Extent};
ghost use Rattle.tp_listings.specs.Pages.{AreOrdered, IsPage};
ghost use Rattle.nbd_wire.specs.declared.contexts.MetaContext.TheVariants.{Allocation, Since};
ghost use Rattle.nbd_wire.specs.Contexts.{status_chunk};
ghost use Rattle.nbd_session.specs.Requests.{IsLeft, known_bytes};
ghost use Rattle.nbd_session.specs.Session.{Describes, IsDescribed};
ghost use Rattle.nbd_session.specs.Spans.{as_pairs};
ghost use Rattle.nbd_session.specs.Status.{IsAllocation, IsSince, TellsSince, between, blocks_to, cut_to_one, extents_in, first_block, unit_of, wants_one};

use crate::answer::{put_error_of, put_refusal_chunk};
use crate::phase::{Manner, NO_VOLUME};
use crate::spans::{Span, between, cut, spans_of};
use nbd_wire::{MetaContext, Request, put_extent, put_status_head};
use tp_listings::{Extent, page_of};
use tp_model::{DevId, Geometry, NbdError, SharedReads, Slot, Slots, Vb, Volumes, Walked};

/// The first number that is no block.
const BLOCKS: u64 = 16_777_216;

/// The bytes of a block.
pub(crate) fn unit_of(geometry: &Geometry) -> u64
    ensures value { result ≡ unit_of geometry.now }
    ensures some { 0 < result }
    ensures most { result ≤ 1048576 }
{
    512 * geometry.block_sectors() as u64
}

/// The block in which a request begins, where a volume may have it.
pub(crate) fn first_block(unit: u64, request: &Request) -> Option<Vb>
    requires { 0 < unit }
    ensures some { IfSome result (λ block. (block ≡ first_block unit request.now) × (block < 16777216)) }
    ensures none { IfNone result (16777216 ≤ first_block unit request.now) }
{
    let block = request.offset / unit;
    if block >= BLOCKS {
        return None;
    }
    Some(Vb::new(block as u32))
}

/// The block behind the one in which a request ends, as far as volumes have blocks.
pub(crate) fn blocks_to(unit: u64, request: &Request) -> u32
    requires unit { 0 < unit }
    requires some { 0 < request.now.len }
    requires inside { request.now.offset + request.now.len < 18446744073709551616 }
    ensures value { result ≡ blocks_to unit request.now }
    ensures most { result ≤ 16777216 }
{
    let last = request.offset + (request.len as u64 - 1);
    (BLOCKS - 1).min(last / unit) as u32 + 1
}

/// Whether one extent alone is wanted.
fn wants_one(request: &Request) -> bool
    ensures { result ≡ wants_one request.now }
{
    request.flags / 8 % 2 == 1
}

/// A chunk of an answer: what it tells, and whether it is the last one.
#[derive(Clone, Copy, Debug)]
struct Part {
    context: MetaContext,
    is_last: bool,
}

/// Puts the chunk that tells these extents, at a place.
fn put_spans(out: &mut [u8], start: usize, part: &Part, cookie: u64, spans: &[Span]) -> usize
    requires few { length spans.now ≤ 15 }
    requires room { start + 144 ≤ length out.old }
    ensures chunk { take result out.new ≡ take start out.old ++ status_chunk part.now.is_last part.now.context cookie (as_pairs spans.now) }
    ensures end { result ≤ start + 144 }
    ensures len { length out.new ≡ length out.old }
{
    let mut at = put_status_head(
        out,
        start,
        part.is_last,
        part.context,
        cookie,
        spans.len() as u32,
    );
    for span in spans {
        at = put_extent(out, at, span.len, span.flags);
    }
    at
}

/// Puts the chunk that answers a request by the runs of a page, which goes so many blocks far.
fn put_page(
    out: &mut [u8],
    start: usize,
    part: &Part,
    unit: u64,
    request: &Request,
    runs: &[Extent],
    blocks: u32,
) -> usize
    requires unit { unit ≤ 1048576 }
    requires few { length runs.now ≤ 7 }
    requires inside { request.now.offset + request.now.len < 18446744073709551616 }
    requires room { start + 144 ≤ length out.old }
    ensures chunk { take result out.new ≡ take start out.old ++ status_chunk part.now.is_last part.now.context request.now.cookie (cut_to_one (wants_one request.now)
        (extents_in part.now.context unit request.now.offset (between request.now.offset (request.now.offset + request.now.len) (unit * blocks)) runs.now)) }
    ensures end { result ≤ start + 144 }
    ensures len { length out.new ≡ length out.old }
{
    let most = request.offset + request.len as u64;
    let end = between(request.offset, most, unit * blocks as u64);
    let mut spans = spans_of(part.context, unit, request.offset, end, runs);
    cut(&mut spans, wants_one(request));
    put_spans(out, start, part, request.cookie, &spans)
}

/// Puts the chunk that tells where there is data, by what a walk from the request's first block on listed.
fn put_allocation(
    out: &mut [u8],
    is_last: bool,
    unit: u64,
    from: Vb,
    request: &Request,
    slots: &[Slot],
) -> usize
    requires unit { 0 < unit }
    requires most { unit ≤ 1048576 }
    requires from { from ≡ first_block unit request.now }
    requires some { 0 < request.now.len }
    requires inside { request.now.offset + request.now.len < 18446744073709551616 }
    requires room { 144 ≤ length out.old }
    ensures status { IsAllocation is_last unit request.now (listed slots.now) (take result out.new) }
    ensures end { result ≤ 144 }
    ensures len { length out.new ≡ length out.old }
{
    let page = page_of(&[], slots, from, blocks_to(unit, request));
    let part = Part {
        context: MetaContext::Allocation,
        is_last,
    };
    put_page(out, 0, &part, unit, request, &page.extents, page.end)
}

/// Puts the last chunk, which tells where the volume may differ from an older one, at a place, by what walks over both listed.
fn put_since(
    out: &mut [u8],
    start: usize,
    unit: u64,
    from: Vb,
    request: &Request,
    old: &[Slot],
    new: &[Slot],
) -> usize
    requires unit { 0 < unit }
    requires most { unit ≤ 1048576 }
    requires from { from ≡ first_block unit request.now }
    requires some { 0 < request.now.len }
    requires inside { request.now.offset + request.now.len < 18446744073709551616 }
    requires room { start + 144 ≤ length out.old }
    ensures status { (part : List ℕ) × (take result out.new ≡ take start out.old ++ part) × IsSince unit request.now (listed old.now) (listed new.now) part }
    ensures end { result ≤ start + 144 }
    ensures len { length out.new ≡ length out.old }
{
    let page = page_of(old, new, from, blocks_to(unit, request));
    let part = Part {
        context: MetaContext::Since,
        is_last: true,
    };
    put_page(out, start, &part, unit, request, &page.extents, page.end)
}

/// Puts the chunks that tell since an older volume, and where there is data, if that is asked for too.
fn put_compared(
    out: &mut [u8],
    tells_blocks: bool,
    unit: u64,
    from: Vb,
    request: &Request,
    old: &[Slot],
    new: &[Slot],
) -> usize
    requires unit { 0 < unit }
    requires most { unit ≤ 1048576 }
    requires from { from ≡ first_block unit request.now }
    requires some { 0 < request.now.len }
    requires inside { request.now.offset + request.now.len < 18446744073709551616 }
    requires room { 288 ≤ length out.old }
    ensures status { TellsSince tells_blocks unit request.now (listed old.now) (listed new.now) (take result out.new) }
    ensures fits { result ≤ length out.new }
    ensures len { length out.new ≡ length out.old }
{
    if tells_blocks {
        let start = put_allocation(out, false, unit, from, request, new);
        return put_since(out, start, unit, from, request, old, new);
    }
    put_since(out, 0, unit, from, request, old, new)
}

/// The older volume since which is to be told, if there is to be one.
fn older(manner: Manner) -> Option<DevId>
    ensures some { IfSome result (λ id. (id ≡ manner.since) × (manner.since < 16777216)) }
    ensures none { IfNone result (16777216 ≤ manner.since) }
{
    if manner.since >= NO_VOLUME {
        return None;
    }
    Some(DevId::new(manner.since))
}

/// Tells what is asked for of a volume of which a walk from the request's first block on listed these slots.
fn tell_slots<V: Walked>(
    pool: &mut V,
    manner: Manner,
    unit: u64,
    from: Vb,
    request: &Request,
    slots: &[Slot],
    out: &mut [u8],
) -> usize
    requires unit { 0 < unit }
    requires most { unit ≤ 1048576 }
    requires from { from ≡ first_block unit request.now }
    requires some { 0 < request.now.len }
    requires inside { request.now.offset + request.now.len < 18446744073709551616 }
    requires room { 288 ≤ length out.old }
    ensures answer { IsDescribed V.view.outline (PoolCall V.view) manner unit from request.now (Listed (listed slots.now)) pool.old (take result out.new) pool.new }
    ensures fits { result ≤ length out.new }
    ensures len { length out.new ≡ length out.old }
{
    let Some(id) = older(manner) else {
        return put_allocation(out, true, unit, from, request, slots);
    };
    let mut old = Slots::new();
    match pool.walk(id, from, &mut old) {
        Ok(()) => put_compared(out, manner.tells_blocks, unit, from, request, &old, slots),
        Err(refusal) => put_refusal_chunk(out, refusal, request.cookie),
    }
}

/// The same for those who look at a pool at once. None where the pool has no shared walk of the older volume.
fn tell_slots_shared<V: Volumes, S: SharedReads<V>>(
    pool: &S,
    manner: Manner,
    unit: u64,
    from: Vb,
    request: &Request,
    slots: &[Slot],
    out: &mut [u8],
) -> Option<usize>
    requires unit { 0 < unit }
    requires most { unit ≤ 1048576 }
    requires from { from ≡ first_block unit request.now }
    requires some { 0 < request.now.len }
    requires inside { request.now.offset + request.now.len < 18446744073709551616 }
    requires room { 288 ≤ length out.old }
    ensures answer { IfSome result (λ sent. IsDescribed V.view.outline (PoolCall V.view) manner unit from request.now (Listed (listed slots.now))
        (S.of pool.now) (take sent out.new) (S.of pool.now)) }
    ensures fits { IfSome result (λ sent. sent ≤ length out.new) }
    ensures len { length out.new ≡ length out.old }
{
    let Some(id) = older(manner) else {
        return Some(put_allocation(out, true, unit, from, request, slots));
    };
    let mut old = Slots::new();
    if !pool.walk_beside(id, from, &mut old) {
        return None;
    }
    Some(put_compared(out, manner.tells_blocks, unit, from, request, &old, slots))
}

/// Tells of a range of a volume what is asked for, from its beginning on, and as far as one walk does.
pub(crate) fn describe<V: Walked>(
    pool: &mut V,
    volume: DevId,
    manner: Manner,
    request: &Request,
    out: &mut [u8],
) -> usize
    requires form { IsLeft (known_bytes (V.view.outline pool.old).geometry (V.view.more pool.old) volume) request.now }
    requires inside { request.now.offset + request.now.len < 18446744073709551616 }
    requires room { 288 ≤ length out.old }
    ensures answer { Describes V.view.outline (PoolCall V.view) manner volume request.now pool.old (take result out.new) pool.new }
    ensures fits { result ≤ length out.new }
    ensures len { length out.new ≡ length out.old }
{
    let unit = unit_of(&pool.geometry());
    let Some(from) = first_block(unit, request) else {
        return put_error_of(out, NbdError::Invalid, request.cookie);
    };
    let mut slots = Slots::new();
    match pool.walk(volume, from, &mut slots) {
        Ok(()) => tell_slots(pool, manner, unit, from, request, &slots, out),
        Err(refusal) => put_refusal_chunk(out, refusal, request.cookie),
    }
}

/// The same for those who look at a pool at once. None where the pool has no shared walk of the volume, or of the older one.
pub(crate) fn describe_shared<V: Volumes, S: SharedReads<V>>(
    pool: &S,
    volume: DevId,
    manner: Manner,
    request: &Request,
    out: &mut [u8],
) -> Option<usize>
    requires form { IsLeft (known_bytes (V.view.outline (S.of pool.now)).geometry (V.view.more (S.of pool.now)) volume) request.now }
    requires inside { request.now.offset + request.now.len < 18446744073709551616 }
    requires room { 288 ≤ length out.old }
    ensures answer { IfSome result (λ sent. Describes V.view.outline (PoolCall V.view) manner volume request.now (S.of pool.now) (take sent out.new) (S.of pool.now)) }
    ensures fits { IfSome result (λ sent. sent ≤ length out.new) }
    ensures len { length out.new ≡ length out.old }
{
    let unit = unit_of(&pool.geometry_beside());
    let Some(from) = first_block(unit, request) else {
        return None;
    };
    let mut slots = Slots::new();
    if !pool.walk_beside(volume, from, &mut slots) {
        return None;
    }
    tell_slots_shared(pool, manner, unit, from, request, &slots, out)
}
