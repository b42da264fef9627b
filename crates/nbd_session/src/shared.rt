//! The READ or BLOCK_STATUS with which a piece begins, where the pool has a shared read or walk of it: neither the session nor the pool changes by it.

ghost use Rattle.std.specs.Prelude.{◌≡◌, ◌≤◌, ◌<◌, ◌+◌, ◌/◌, ℕ, List, [], false, length, take, drop, IfSome, IsTrue, MatchBool};
ghost use Rattle.tp_model.specs.Calls.{Read};
ghost use Rattle.tp_model.specs.Clauses.{PoolCall};
ghost use Rattle.nbd_session.specs.Requests.{BeginsWith, IsWhole, is_look, known_bytes, verdict_in};
ghost use Rattle.nbd_session.specs.Session.{AnswersRead, Performs, ReadsInChunks, ReadsLong, SeeksFrom, Serves, Steps, chunk_to, is_at_work, reply_to, state};
ghost use Rattle.nbd_session.specs.Status.{unit_of};
ghost use Rattle.nbd_session.specs.Clauses.{IsReady};

use crate::answer::{SHORT_ANSWER, has_room, put_read_chunk_head, put_read_head};
use crate::holes::{has_blank, may_have_holes, put_holes};
use crate::phase::{Course, Manner, Phase};
use crate::request::{Verdict, judge_in};
use crate::session::Answered;
use crate::status::{describe_shared, first_block, unit_of};
use nbd_wire::{Frame, Kind, Request, read_frame, wanted};
use tp_model::{DevId, SharedReads, Slots, Volumes};

/// A READ of some sectors that is answered by a simple reply, whose data goes to its place behind the reply's head. None where the pool has no shared read of them.
fn read_simply<V: Volumes, S: SharedReads<V>>(
    pool: &S,
    volume: DevId,
    request: &Request,
    out: &mut [u8],
) -> Option<usize>
    requires form { IsWhole (known_bytes (V.view.outline (S.of pool.now)).geometry (V.view.more (S.of pool.now)) volume) request.now }
    requires room { 16 + request.now.len ≤ length out.old }
    ensures answer { IfSome result (λ sent. Performs V.view.outline (PoolCall V.view) (Read volume (request.now.offset / 512) (request.now.len / 512)) (reply_to request.now.cookie)
        (S.of pool.now) (take sent out.new) (S.of pool.now)) }
    ensures fits { IfSome result (λ sent. sent ≤ length out.new) }
    ensures len { length out.new ≡ length out.old }
{
    let len = request.len as usize;
    if !pool.read_beside(volume, request.offset / 512, &mut out[16..16 + len]) {
        return None;
    }
    Some(put_read_head(out, request.cookie, len))
}

/// The same in one chunk.
fn read_in_chunk<V: Volumes, S: SharedReads<V>>(
    pool: &S,
    volume: DevId,
    request: &Request,
    out: &mut [u8],
) -> Option<usize>
    requires form { IsWhole (known_bytes (V.view.outline (S.of pool.now)).geometry (V.view.more (S.of pool.now)) volume) request.now }
    requires room { 28 + request.now.len ≤ length out.old }
    ensures answer { IfSome result (λ sent. Performs V.view.outline (PoolCall V.view) (Read volume (request.now.offset / 512) (request.now.len / 512)) (chunk_to request.now)
        (S.of pool.now) (take sent out.new) (S.of pool.now)) }
    ensures fits { IfSome result (λ sent. sent ≤ length out.new) }
    ensures len { length out.new ≡ length out.old }
{
    let len = request.len as usize;
    if !pool.read_beside(volume, request.offset / 512, &mut out[28..28 + len]) {
        return None;
    }
    Some(put_read_chunk_head(out, request))
}

/// Asks for a walk over the blocks of a READ, whose bytes stand behind the head of its one chunk, and answers by what that told. None where the pool has no shared walk of the
/// volume.
fn seek_beside<V: Volumes, S: SharedReads<V>>(
    pool: &S,
    volume: DevId,
    request: &Request,
    out: &mut [u8],
) -> Option<usize>
    requires some { 0 < request.now.len }
    requires most { request.now.len ≤ 1048576 }
    requires inside { request.now.offset + request.now.len < 18446744073709551616 }
    requires room { 2097172 ≤ length out.old }
    ensures sought { IfSome result (λ sent. SeeksFrom V.view.outline (PoolCall V.view) volume (unit_of (V.view.outline (S.of pool.now)).geometry) request.now
        (take request.now.len (drop 28 out.old)) (S.of pool.now) (take sent out.new) (S.of pool.now)) }
    ensures fits { IfSome result (λ sent. sent ≤ length out.new) }
    ensures len { length out.new ≡ length out.old }
{
    let unit = unit_of(&pool.geometry_beside());
    let Some(from) = first_block(unit, request) else {
        return None;
    };
    let mut slots = Slots::new();
    if !pool.walk_beside(volume, from, &mut slots) {
        return None;
    }
    Some(put_holes(out, unit, from, request, &slots))
}

/// The same of one of as many bytes as the least block has, or more, which may tell holes. None also where the pool has no shared walk that would tell them.
fn read_long<V: Volumes, S: SharedReads<V>>(
    pool: &S,
    volume: DevId,
    request: &Request,
    out: &mut [u8],
) -> Option<usize>
    requires form { IsWhole (known_bytes (V.view.outline (S.of pool.now)).geometry (V.view.more (S.of pool.now)) volume) request.now }
    requires some { 0 < request.now.len }
    requires inside { request.now.offset + request.now.len < 18446744073709551616 }
    requires room { 2097172 ≤ length out.old }
    ensures answer { IfSome result (λ sent. ReadsLong V.view.outline (PoolCall V.view) volume request.now (S.of pool.now) (take sent out.new) (S.of pool.now)) }
    ensures fits { IfSome result (λ sent. sent ≤ length out.new) }
    ensures len { length out.new ≡ length out.old }
{
    let len = request.len as usize;
    if !pool.read_beside(volume, request.offset / 512, &mut out[28..28 + len]) {
        return None;
    }
    if !has_blank(request, &out[..28 + len]) {
        return Some(put_read_chunk_head(out, request));
    }
    seek_beside(pool, volume, request, out)
}

/// A READ of some sectors that is answered in chunks.
fn read_in_chunks<V: Volumes, S: SharedReads<V>>(
    pool: &S,
    volume: DevId,
    request: &Request,
    out: &mut [u8],
) -> Option<usize>
    requires form { IsWhole (known_bytes (V.view.outline (S.of pool.now)).geometry (V.view.more (S.of pool.now)) volume) request.now }
    requires inside { request.now.offset + request.now.len < 18446744073709551616 }
    requires room { 65564 ≤ length out.old }
    requires long { 65536 ≤ request.now.len → 2097172 ≤ length out.old }
    ensures answer { IfSome result (λ sent. ReadsInChunks V.view.outline (PoolCall V.view) volume request.now (S.of pool.now) (take sent out.new) (S.of pool.now)) }
    ensures fits { IfSome result (λ sent. sent ≤ length out.new) }
    ensures len { length out.new ≡ length out.old }
{
    if may_have_holes(request) {
        read_long(pool, volume, request, out)
    } else {
        read_in_chunk(pool, volume, request, out)
    }
}

/// A READ of some sectors. None where the pool has no shared read of them, or no walk that would tell holes.
fn read<V: Volumes, S: SharedReads<V>>(
    pool: &S,
    volume: DevId,
    manner: Manner,
    request: &Request,
    out: &mut [u8],
) -> Option<usize>
    requires form { IsWhole (known_bytes (V.view.outline (S.of pool.now)).geometry (V.view.more (S.of pool.now)) volume) request.now }
    requires inside { request.now.offset + request.now.len < 18446744073709551616 }
    requires room { 65564 ≤ length out.old }
    requires long { 65536 ≤ request.now.len → 2097172 ≤ length out.old }
    ensures answer { IfSome result (λ sent. AnswersRead V.view.outline (PoolCall V.view) volume manner request.now (S.of pool.now) (take sent out.new) (S.of pool.now)) }
    ensures fits { IfSome result (λ sent. sent ≤ length out.new) }
    ensures len { length out.new ≡ length out.old }
{
    if manner.is_structured {
        read_in_chunks(pool, volume, request, out)
    } else {
        read_simply(pool, volume, request, out)
    }
}

/// The answer to one request of a volume of so many bytes, where its tests let it read, or tell of the volume. None also if `out` has no room for it.
fn serve<V: Volumes, S: SharedReads<V>>(
    pool: &S,
    volume: DevId,
    size: u64,
    manner: Manner,
    request: Request,
    out: &mut [u8],
) -> Option<usize>
    requires size { size ≡ known_bytes (V.view.outline (S.of pool.now)).geometry (V.view.more (S.of pool.now)) volume }
    requires room { 65564 ≤ length out.old }
    ensures answer { (payload : List ℕ) → IfSome result (λ sent. Serves V.view.outline (PoolCall V.view) (verdict_in manner size request) volume size manner request payload
        (S.of pool.now) (take sent out.new) (Phase.Transmission volume size (Course.Listens manner)) (S.of pool.now)) }
    ensures kind { IfSome result (λ sent. IsTrue (is_look request)) }
    ensures fits { IfSome result (λ sent. sent ≤ length out.new) }
    ensures len { length out.new ≡ length out.old }
{
    if !has_room(&request, out.len()) {
        return None;
    }
    match judge_in(manner, size, &request) {
        Verdict::Read => read(pool, volume, manner, &request, out),
        Verdict::Status => describe_shared(pool, volume, manner, &request, out),
        _ => None,
    }
}

/// Takes the READ or BLOCK_STATUS with which a piece begins, of a session that holds nothing of a frame.
pub fn take_read<V: Volumes, S: SharedReads<V>>(
    phase: Phase,
    pool: &S,
    piece: &[u8],
    out: &mut [u8],
) -> Option<Answered>
    requires ready { IsReady phase (V.view.outline (S.of pool.now)) (V.view.more (S.of pool.now)) }
    requires room { SHORT_ANSWER ≤ length out.old }
    ensures steps { IfSome result (λ a. Steps V.view.outline (PoolCall V.view) (state phase []) (S.of pool.now) piece.now a.taken (take a.sent out.new) a.ended (state phase []) (S.of pool.now)) }
    ensures idle { IfSome result (λ a. is_at_work phase ≡ false) }
    ensures begins { IfSome result (λ a. BeginsWith is_look piece.now) }
    ensures goes_on { IfSome result (λ a. (a.ended ≡ false) × (0 < a.taken) × (a.taken ≤ length piece.now)) }
    ensures fits { IfSome result (λ a. a.sent ≤ length out.new) }
    ensures len { length out.new ≡ length out.old }
{
    match phase {
        Phase::Transmission {
            volume,
            size,
            course,
        } => match course {
            Course::Listens { manner } => {
                let length = wanted(Kind::Requests, piece);
                if length > piece.len() {
                    return None;
                }
                match read_frame(Kind::Requests, &piece[..length]) {
                    Frame::Command { request, .. } => {
                        match serve(pool, volume, size, manner, request, out) {
                            Some(sent) => Some(Answered {
                                taken: length,
                                sent,
                                ended: false,
                            }),
                            None => None,
                        }
                    }
                    _ => None,
                }
            }
            Course::Works { .. } => None,
        },
        _ => None,
    }
}
