//! A FLUSH that a session makes next, and one that is answered by a flush made elsewhere.

ghost use Rattle.std.specs.Prelude.{◌≡◌, ◌<◌, ◌≤◌, ℕ, List, [], IfSome, None, length, take, false, true};
ghost use Rattle.tp_model.specs.Clauses.{PoolCall};
ghost use Rattle.tp_model.specs.Flushing.{IsFlushed};
ghost use Rattle.tp_model.specs.Requests.{is_flush};
ghost use Rattle.nbd_wire.specs.Reading.{message_of};
ghost use Rattle.nbd_session.specs.Buffers.{IsSound};
ghost use Rattle.nbd_session.specs.Flushes.{BeginsWithFlush, IsAtFlush, answer_of, flush_cookie, is_flush_verdict};
ghost use Rattle.nbd_session.specs.Requests.{IsLeft, form_of};
ghost use Rattle.nbd_session.specs.Session.{Steps, has_ended, is_at_work, is_to_flush, left_in, reply_to, state};

use crate::advance::Advanced;
use crate::answer::{put_refusal, put_reply};
use crate::parts::end_flush;
use crate::phase::{Course, Manner, Phase};
use crate::request::{Verdict, judge_in};
use nbd_wire::{COMMAND_FLUSH, Frame, Kind, Request, read_frame, wanted};
use tp_model::{DevId, Geometry, Refusal, Volumes};

/// A FLUSH at the front of a piece: how many bytes it has, and its cookie.
#[derive(Clone, Copy)]
struct WholeFlush {
    len: usize,
    cookie: u64,
}

/// Whether a request of this verdict is a FLUSH that passes its tests.
fn is_flush_verdict(verdict: Verdict) -> bool
    ensures { result ≡ is_flush_verdict verdict }
{
    matches!(verdict, Verdict::Flush)
}

/// The cookie of a FLUSH that passes its tests, if the frame is one.
fn flush_cookie(size: u64, manner: Manner, frame: Frame<'_>) -> Option<u64>
    ensures { result ≡ flush_cookie size manner (message_of frame.entry) }
{
    match frame {
        Frame::Command { request, .. } => {
            if is_flush_verdict(judge_in(manner, size, &request)) {
                return Some(request.cookie);
            }
            None
        }
        _ => None,
    }
}

/// The FLUSH that stands whole at the front of a piece and passes its tests, if there is one.
fn whole_flush(size: u64, manner: Manner, piece: &[u8]) -> Option<WholeFlush>
    ensures some { IfSome result (λ f. (0 < f.len) × (f.len ≤ length piece.now) × ((b : BeginsWithFlush size manner piece.now)
        × (b.frame ≡ take f.len piece.now) × (b.request.cookie ≡ f.cookie))) }
    ensures none { result ≡ None → BeginsWithFlush size manner piece.now → ⊥ }
{
    let length = wanted(Kind::Requests, piece);
    if length > piece.len() {
        return None;
    }
    match flush_cookie(size, manner, read_frame(Kind::Requests, &piece[..length])) {
        Some(cookie) => Some(WholeFlush {
            len: length,
            cookie,
        }),
        None => None,
    }
}

/// Whether the next frame of a session that holds no part of one is such a FLUSH.
pub fn is_at_flush(phase: Phase, piece: &[u8]) -> bool
    ensures at { result ≡ true → IsAtFlush (state phase []) piece.now }
    ensures not_at { result ≡ false → IsAtFlush (state phase []) piece.now → ⊥ }
{
    match phase {
        Phase::Transmission { size, course, .. } => match course {
            Course::Listens { manner } => has_whole_flush(size, manner, piece),
            Course::Works { .. } => false,
        },
        _ => false,
    }
}

/// Whether such a FLUSH stands at the front of a piece.
fn has_whole_flush(size: u64, manner: Manner, piece: &[u8]) -> bool
    ensures at { result ≡ true → BeginsWithFlush size manner piece.now }
    ensures not_at { result ≡ false → BeginsWithFlush size manner piece.now → ⊥ }
{
    match whole_flush(size, manner, piece) {
        Some(_) => true,
        None => false,
    }
}

/// The reply to a FLUSH that was answered so.
fn put_answer(out: &mut [u8], answer: Result<(), Refusal>, cookie: u64) -> usize
    requires { 16 ≤ length out.old }
    ensures reply { take result out.new ≡ reply_to cookie (answer_of answer) }
    ensures fits { result ≤ length out.new }
    ensures len { length out.new ≡ length out.old }
{
    match answer {
        Ok(()) => put_reply(out, 0, cookie),
        Err(refusal) => put_refusal(out, refusal, cookie),
    }
}

/// Where a session stands behind the FLUSH with which a piece begins. The FLUSH is answered as a
/// flush was that was made elsewhere. None where the piece begins with no such FLUSH.
fn flushed_frame<V: Volumes>(
    volume: DevId,
    size: u64,
    manner: Manner,
    piece: &[u8],
    answer: Result<(), Refusal>,
    out: &mut [u8],
) -> Option<Advanced>
    requires room { 16 ≤ length out.old }
    ensures steps { IfSome result (λ a. (p q : V) → IsFlushed V.view p q answer
        → Steps V.view.outline (PoolCall V.view) (state (Phase.Transmission volume size (Course.Listens manner)) []) p piece.now
        a.taken (take a.sent out.new) (has_ended a.phase) (state a.phase []) q) }
    ensures phase { IfSome result (λ a. a.phase ≡ Phase.Transmission volume size (Course.Listens manner)) }
    ensures filled { IfSome result (λ a. a.filled ≡ 0) }
    ensures inside { IfSome result (λ a. (0 < a.taken) × (a.taken ≤ length piece.now)) }
    ensures fits { IfSome result (λ a. a.sent ≤ length out.new) }
    ensures none { result ≡ None → BeginsWithFlush size manner piece.now → ⊥ }
    ensures len { length out.new ≡ length out.old }
{
    match whole_flush(size, manner, piece) {
        None => None,
        Some(flush) => {
            let sent = put_answer(out, answer, flush.cookie);
            Some(Advanced {
                phase: Phase::Transmission {
                    volume,
                    size,
                    course: Course::Listens { manner },
                },
                filled: 0,
                taken: flush.len,
                sent,
            })
        }
    }
}

/// The same behind the FLUSH that is left of a request, in a pool of these sizes. None where
/// something else is left of it.
fn flushed_rest<V: Volumes>(
    geometry: &Geometry,
    volume: DevId,
    size: u64,
    manner: Manner,
    rest: Request,
    answer: Result<(), Refusal>,
    out: &mut [u8],
) -> Option<Advanced>
    requires left { IsLeft size rest }
    requires room { 16 ≤ length out.old }
    ensures steps { IfSome result (λ a. (p q : V) (piece : List ℕ) → (V.view.outline p).geometry ≡ geometry.now → IsFlushed V.view p q answer
        → Steps V.view.outline (PoolCall V.view) (state (Phase.Transmission volume size (Course.Works manner rest)) []) p piece
        a.taken (take a.sent out.new) (has_ended a.phase) (state a.phase []) q) }
    ensures open { IfSome result (λ a. has_ended a.phase ≡ false) }
    ensures filled { IfSome result (λ a. a.filled ≡ 0) }
    ensures taken { IfSome result (λ a. a.taken ≡ 0) }
    ensures sound { IfSome result (λ a. IsSound a.phase) }
    ensures less { IfSome result (λ a. left_in a.phase < rest.len) }
    ensures fits { IfSome result (λ a. a.sent ≤ length out.new) }
    ensures none { result ≡ None → is_flush (form_of rest) ≡ false }
    ensures len { length out.new ≡ length out.old }
{
    if rest.kind == COMMAND_FLUSH {
        let (phase, sent) = end_flush::<V>(geometry, volume, size, manner, rest, answer, out);
        return Some(Advanced {
            phase,
            filled: 0,
            taken: 0,
            sent,
        });
    }
    None
}

/// Where a session that holds no part of a frame stands behind its FLUSH: the one with which a
/// piece begins, or the one that is left of its request. None where neither is what it does next.
pub fn flushed<V: Volumes>(
    phase: Phase,
    geometry: &Geometry,
    piece: &[u8],
    answer: Result<(), Refusal>,
    out: &mut [u8],
) -> Option<Advanced>
    requires sound { IsSound phase }
    requires room { 16 ≤ length out.old }
    ensures steps { IfSome result (λ a. (p q : V) → (V.view.outline p).geometry ≡ geometry.now → IsFlushed V.view p q answer
        → Steps V.view.outline (PoolCall V.view) (state phase []) p piece.now a.taken (take a.sent out.new) (has_ended a.phase) (state a.phase []) q) }
    ensures open { IfSome result (λ a. has_ended a.phase ≡ false) }
    ensures filled { IfSome result (λ a. a.filled ≡ 0) }
    ensures inside { IfSome result (λ a. (a.taken ≤ length piece.now) × (is_at_work phase ≡ false → 0 < a.taken)) }
    ensures sound { IfSome result (λ a. IsSound a.phase) }
    ensures less { IfSome result (λ a. is_at_work phase ≡ true → left_in a.phase < left_in phase) }
    ensures fits { IfSome result (λ a. a.sent ≤ length out.new) }
    ensures none { result ≡ None → is_to_flush phase ≡ false }
    ensures none_at { result ≡ None → IsAtFlush (state phase []) piece.now → ⊥ }
    ensures len { length out.new ≡ length out.old }
{
    match phase {
        Phase::Transmission {
            volume,
            size,
            course,
        } => match course {
            Course::Listens { manner } => {
                flushed_frame::<V>(volume, size, manner, piece, answer, out)
            }
            Course::Works { manner, rest } => flushed_rest::<V>(
                geometry, volume, size, manner, rest, answer, out,
            ),
        },
        _ => None,
    }
}
