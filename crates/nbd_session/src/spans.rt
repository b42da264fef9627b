//! Where a volume has data, or where it may differ from an older one, in bytes: extents of its blocks, as BLOCK_STATUS tells them.

ghost use Rattle.std.specs.Prelude.{◌≡◌, ◌≤◌, ◌<◌, ◌+◌, ◌-◌, ◌*◌, ◌++◌, ◌∷◌, [], length};
ghost use Rattle.nbd_session.specs.Status.{between, cut_to_one, extents_in, gap_to, listed_flags, other_flags};
ghost use Rattle.nbd_session.specs.Spans.{as_pairs};
ghost use Rattle.nbd_session.specs.Holes.{data_to};

use arrayvec::ArrayVec;
use nbd_wire::MetaContext;
use tp_listings::{Extent, MOST_RUNS};

/// As many extents as are told of at once at most: the runs of a page, a gap before each, one behind the last, and of a READ what lies behind the page.
pub(crate) const MOST_SPANS: usize = 2 * MOST_RUNS + 2;

/// The flags NBD_STATE_HOLE and NBD_STATE_ZERO.
const HOLE: u32 = 3;

/// The flag of what may differ, as QEMU's dirty bitmaps have it.
const DIRTY: u32 = 1;

/// So many bytes of a volume, and their flags.
#[derive(Clone, Copy, Debug, Default, PartialEq, Eq)]
pub(crate) struct Span {
    pub(crate) len: u32,
    pub(crate) flags: u32,
}

/// Extents in the order of the volume.
pub(crate) type Spans = ArrayVec<Span, MOST_SPANS>;

/// The place that is nearest to this one.
pub(crate) fn between(least: u64, most: u64, at: u64) -> u64
    requires { least ≤ most }
    ensures value { result ≡ between least most at }
    ensures least { least ≤ result }
    ensures most { result ≤ most }
{
    least.max(most.min(at))
}

/// Puts an extent behind the others.
fn push_span(spans: &mut Spans, len: u32, flags: u32)
    requires { length spans.old.items < 16 }
    ensures pushed { as_pairs spans.new.items ≡ as_pairs spans.old.items ++ (len, flags) ∷ [] }
    ensures count { length spans.new.items ≡ length spans.old.items + 1 }
{
    spans.push(Span { len, flags });
}

/// The flags of blocks that a page lists.
fn listed_flags(context: MetaContext) -> u32
    ensures { result ≡ listed_flags context }
{
    match context {
        MetaContext::Allocation => 0,
        MetaContext::Since => DIRTY,
    }
}

/// The flags of those that it leaves out.
fn other_flags(context: MetaContext) -> u32
    ensures { result ≡ other_flags context }
{
    match context {
        MetaContext::Allocation => HOLE,
        MetaContext::Since => 0,
    }
}

/// Puts what is left out between two places behind the others, where there are bytes between them.
fn push_gap(spans: &mut Spans, context: MetaContext, at: u64, to: u64)
    requires room { length spans.old.items < 15 }
    requires short { to - at < 4294967296 }
    ensures pushed { as_pairs spans.new.items ≡ as_pairs spans.old.items ++ gap_to context at to }
    ensures count { length spans.new.items ≤ length spans.old.items + 1 }
{
    if at < to {
        let flags = other_flags(context);
        push_span(spans, (to - at) as u32, flags);
    }
}

/// Puts data between two places behind the others, where there are bytes between them.
pub(crate) fn push_data(spans: &mut Spans, at: u64, to: u64)
    requires room { length spans.old.items < 16 }
    requires short { to - at < 4294967296 }
    ensures pushed { as_pairs spans.new.items ≡ as_pairs spans.old.items ++ data_to at to }
    ensures count { length spans.new.items ≤ length spans.old.items + 1 }
{
    if at < to {
        push_span(spans, (to - at) as u32, 0);
    }
}

/// Puts a run of blocks behind the others, and the gap before it: where it ends, `end` at most.
fn push_run(
    spans: &mut Spans,
    context: MetaContext,
    unit: u64,
    at: u64,
    end: u64,
    run: &Extent,
) -> u64
    requires room { length spans.old.items < 14 }
    requires unit { unit ≤ 1048576 }
    requires order { at ≤ end }
    requires short { end - at < 4294967296 }
    ensures pushed { as_pairs spans.new.items ≡ as_pairs spans.old.items ++ (gap_to context at (between at end (unit * run.now.first))
        ++ (result - between at end (unit * run.now.first), listed_flags context) ∷ []) }
    ensures last { result ≡ between (between at end (unit * run.now.first)) end (unit * (run.now.first + run.now.blocks)) }
    ensures least { at ≤ result }
    ensures most { result ≤ end }
    ensures count { length spans.new.items ≤ length spans.old.items + 2 }
{
    let first = between(at, end, unit * run.first as u64);
    let last = between(first, end, unit * (run.first as u64 + run.blocks as u64));
    let flags = listed_flags(context);
    push_gap(spans, context, at, first);
    push_span(spans, (last - first) as u32, flags);
    last
}

/// The extents from a byte of a volume up to another one, where a page lists these runs of blocks. unit: the bytes of a block.
pub(crate) fn spans_of(context: MetaContext, unit: u64, at: u64, end: u64, runs: &[Extent]) -> Spans
    requires unit { unit ≤ 1048576 }
    requires few { length runs.now ≤ 7 }
    requires order { at ≤ end }
    requires short { end - at < 4294967296 }
    ensures spans { as_pairs result.items ≡ extents_in context unit at end runs.now }
    ensures few { length result.items ≤ 15 }
{
    let mut spans = Spans::new();
    let mut here = at;
    for run in runs {
        here = push_run(&mut spans, context, unit, here, end, run);
    }
    push_gap(&mut spans, context, here, end);
    spans
}

/// The first extent alone, where no more is wanted.
pub(crate) fn cut(spans: &mut Spans, is_one: bool)
    ensures cut { as_pairs spans.new.items ≡ cut_to_one is_one (as_pairs spans.old.items) }
    ensures few { length spans.new.items ≤ length spans.old.items }
{
    if is_one {
        spans.truncate(1);
    }
}
