//! Parts of a long request, and the FLUSH that is left of one that is kept apart.

ghost use Rattle.std.specs.Prelude.{◌≡◌, ◌≤◌, ◌<◌, ◌+◌, ◌%◌, false, length, take, true, MatchResult};
ghost use Rattle.tp_model.specs.Calls.{Done, Refused};
ghost use Rattle.tp_model.specs.Clauses.{PoolCall};
ghost use Rattle.tp_model.specs.Flushing.{IsFlushed};
ghost use Rattle.tp_model.specs.Requests.{is_flush};
ghost use Rattle.nbd_session.specs.Requests.{IsLeft, behind, form_of, is_last, known_bytes, len_of_part, long_call, part_bytes, part_call, up_to_cut};
ghost use Rattle.nbd_session.specs.Session.{MakesPart, has_ended, left_in};
ghost use Rattle.nbd_session.specs.Buffers.{IsSound};

use crate::answer::{at_work, put_refusal, put_reply, wants_fua, wants_no_hole};
use crate::phase::{Course, Manner, Phase};
use nbd_wire::{COMMAND_FLUSH, COMMAND_TRIM, Request};
use tp_model::{DevId, Geometry, Refusal, Volumes};

/// The bytes of the most whole blocks that 2048 sectors have.
fn part_bytes(geometry: &Geometry) -> u64
    ensures bytes { result ≡ part_bytes geometry.now }
    ensures some { 512 ≤ result }
    ensures most { result ≤ 1048576 }
    ensures whole { result % 512 ≡ 0 }
{
    let block = geometry.block_sectors() as u64;
    512 * (2048 / block * block)
}

/// How many bytes stand between the beginning of what is left of a request and the next place where parts are cut.
fn up_to_cut(geometry: &Geometry, rest: &Request) -> u64
    requires offset { rest.now.offset % 512 ≡ 0 }
    ensures bytes { result ≡ up_to_cut geometry.now rest.now }
    ensures some { 512 ≤ result }
    ensures most { result ≤ 1048576 }
    ensures whole { result % 512 ≡ 0 }
{
    let most = part_bytes(geometry);
    most - rest.offset % most
}

/// The first part of what is left of a request: how many bytes it has, and whether nothing is left behind it.
#[derive(Clone, Copy)]
struct Part {
    len: u64,
    is_last: bool,
}

/// The next part.
fn part_of(geometry: &Geometry, rest: &Request) -> Part
    requires offset { rest.now.offset % 512 ≡ 0 }
    requires len { rest.now.len % 512 ≡ 0 }
    ensures len { result.len ≡ len_of_part geometry.now rest.now }
    ensures cut { result.is_last ≡ false → (result.len ≡ up_to_cut geometry.now rest.now) × (result.len < rest.now.len) }
    ensures some { 0 < rest.now.len → 0 < result.len }
    ensures last { result.is_last ≡ is_last geometry.now rest.now }
    ensures whole { result.len % 512 ≡ 0 }
    ensures most { result.len ≤ 1048576 }
    ensures inside { result.len ≤ rest.now.len }
{
    let cut = up_to_cut(geometry, rest);
    let left = rest.len as u64;
    if left <= cut {
        return Part {
            len: left,
            is_last: true,
        };
    }
    Part {
        len: cut,
        is_last: false,
    }
}

/// What is left of a request behind a part of so many bytes.
fn behind(rest: Request, len: u64) -> Request
    requires part { len ≤ rest.len }
    requires fits { rest.offset + len < 18446744073709551616 }
    ensures { result ≡ behind rest len }
{
    Request {
        offset: rest.offset + len,
        len: rest.len - len as u32,
        ..rest
    }
}

/// Asks the pool for the next part of a long request. FUA is for the last one.
fn ask_long<V: Volumes>(
    pool: &mut V,
    volume: DevId,
    manner: Manner,
    rest: &Request,
    part: Part,
) -> Result<(), Refusal>
    requires whole { (rest.now.offset % 512 ≡ 0) × (part.len % 512 ≡ 0) }
    requires most { part.len ≤ 1048576 }
    requires inside { rest.now.offset + part.len ≤ known_bytes (V.view.outline pool.old).geometry (V.view.more pool.old) volume }
    requires len { part.len ≡ len_of_part (V.view.outline pool.old).geometry rest.now }
    requires last { part.is_last ≡ is_last (V.view.outline pool.old).geometry rest.now }
    ensures { MatchResult result
        (λ _. PoolCall V.view pool.old (long_call manner volume (V.view.outline pool.old).geometry rest.now) Done pool.new)
        (λ reason. PoolCall V.view pool.old (long_call manner volume (V.view.outline pool.old).geometry rest.now) (Refused reason) pool.new) }
{
    let sector = rest.offset / 512;
    let count = part.len / 512;
    let fua = wants_fua(manner, rest) && part.is_last;
    if rest.kind == COMMAND_TRIM {
        pool.trim(volume, sector, count, fua)
    } else {
        pool.write_zeroes(volume, sector, count, wants_no_hole(rest), fua)
    }
}

/// Asks the pool for what is made next of a request: the next part of a long one, or the FLUSH that is left of one that is kept apart.
fn ask_part<V: Volumes>(
    pool: &mut V,
    volume: DevId,
    manner: Manner,
    rest: &Request,
    part: Part,
) -> Result<(), Refusal>
    requires whole { (rest.now.offset % 512 ≡ 0) × (part.len % 512 ≡ 0) }
    requires most { part.len ≤ 1048576 }
    requires inside { rest.now.offset + part.len ≤ known_bytes (V.view.outline pool.old).geometry (V.view.more pool.old) volume }
    requires len { part.len ≡ len_of_part (V.view.outline pool.old).geometry rest.now }
    requires last { part.is_last ≡ is_last (V.view.outline pool.old).geometry rest.now }
    ensures { MatchResult result
        (λ _. PoolCall V.view pool.old (part_call manner volume (V.view.outline pool.old).geometry rest.now) Done pool.new)
        (λ reason. PoolCall V.view pool.old (part_call manner volume (V.view.outline pool.old).geometry rest.now) (Refused reason) pool.new) }
{
    if rest.kind == COMMAND_FLUSH {
        pool.flush()
    } else {
        ask_long(pool, volume, manner, rest, part)
    }
}

/// Makes the next part of a request of which so much is left, and answers the request where that part is the last one or is refused.
pub fn make_part<V: Volumes>(
    pool: &mut V,
    volume: DevId,
    size: u64,
    manner: Manner,
    rest: Request,
    out: &mut [u8],
) -> (Phase, usize)
    requires size { size ≡ known_bytes (V.view.outline pool.old).geometry (V.view.more pool.old) volume }
    requires left { IsLeft size rest }
    requires room { 16 ≤ length out.old }
    ensures made { MakesPart V.view.outline (PoolCall V.view) volume size manner rest pool.old (take result.1 out.new) result.0 pool.new }
    ensures sound { IsSound result.0 }
    ensures less { left_in result.0 < rest.len }
    ensures fits { result.1 ≤ length out.new }
    ensures len { length out.new ≡ length out.old }
{
    let same = Phase::Transmission {
        volume,
        size,
        course: Course::Listens { manner },
    };
    let geometry = pool.geometry();
    let part = part_of(&geometry, &rest);
    if let Err(refusal) = ask_part(pool, volume, manner, &rest, part) {
        return (same, put_refusal(out, refusal, rest.cookie));
    }
    if part.is_last {
        return (same, put_reply(out, 0, rest.cookie));
    }
    (at_work(volume, size, manner, behind(rest, part.len)), 0)
}

/// Answers a request of which a FLUSH is left by the answer of a flush that was made elsewhere, of a pool of these sizes.
pub fn end_flush<V: Volumes>(
    geometry: &Geometry,
    volume: DevId,
    size: u64,
    manner: Manner,
    rest: Request,
    answer: Result<(), Refusal>,
    out: &mut [u8],
) -> (Phase, usize)
    requires flush { is_flush (form_of rest) ≡ true }
    requires left { IsLeft size rest }
    requires room { 16 ≤ length out.old }
    ensures made { (p q : V) → (V.view.outline p).geometry ≡ geometry.now → IsFlushed V.view p q answer
        → MakesPart V.view.outline (PoolCall V.view) volume size manner rest p (take result.1 out.new) result.0 q }
    ensures open { has_ended result.0 ≡ false }
    ensures sound { IsSound result.0 }
    ensures less { left_in result.0 < rest.len }
    ensures fits { result.1 ≤ length out.new }
    ensures len { length out.new ≡ length out.old }
{
    let same = Phase::Transmission {
        volume,
        size,
        course: Course::Listens { manner },
    };
    let part = part_of(geometry, &rest);
    if let Err(reason) = answer {
        return (same, put_refusal(out, reason, rest.cookie));
    }
    if part.is_last {
        return (same, put_reply(out, 0, rest.cookie));
    }
    (at_work(volume, size, manner, behind(rest, part.len)), 0)
}
