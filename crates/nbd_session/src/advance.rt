//! A session goes on by a piece.

ghost use Rattle.std.specs.Prelude.{◌≡◌, ◌≤◌, ◌<◌, ◌+◌, [], true, Option, None, Some, IfSome, length, take, vec_capacity};
ghost use Rattle.nbd_wire.specs.Reading.{fixed_len, whole_len};
ghost use Rattle.nbd_session.specs.Session.{AnswersText, GoesOn, IsDeaf, has_ended, is_at_work, kind_of as kind_in, left_in, state};
ghost use Rattle.nbd_session.specs.Buffers.{IsSound, wanted_in};
ghost use Rattle.nbd_session.specs.Requests.{IsLeft, known_bytes};
ghost use Rattle.tp_model.specs.Clauses.{PoolCall};
ghost use Rattle.nbd_session.specs.Clauses.{Advances, IsReady};

use crate::answer::{MAX_ANSWER, SHORT_ANSWER, answer};
use crate::gather::gather;
use crate::parts::make_part;
use crate::phase::{Course, Manner, Phase};
use nbd_wire::{Kind, MAX_FRAME, Request, read_frame, wanted};
use tp_model::{Cloned, DevId, Volumes};

/// Of which kind the frames are that come next, where any do.
pub fn kind_of(phase: &Phase) -> Option<Kind>
    ensures { result ≡ kind_in phase.now }
{
    match phase {
        Phase::Flags { .. } => Some(Kind::Flags),
        Phase::Options { .. } => Some(Kind::Options),
        Phase::Transmission {
            course: Course::Listens { .. },
            ..
        } => Some(Kind::Requests),
        Phase::Transmission {
            course: Course::Works { .. },
            ..
        } => None,
        Phase::Ended => None,
    }
}

pub fn has_ended_in(phase: Phase) -> bool
    ensures { result ≡ has_ended phase }
{
    matches!(phase, Phase::Ended)
}

/// The answer to a text that is one whole frame, or a fixed part that ends the connection. None if
/// `out` has no room for it: then nothing was done.
fn answer_text<V: Cloned>(
    phase: Phase,
    kind: Kind,
    text: &[u8],
    out: &mut [u8],
    pool: &mut V,
) -> Option<(Phase, usize)>
    requires kind { kind_in phase ≡ Some kind }
    requires ready { IsReady phase (V.view.outline pool.old) (V.view.more pool.old) }
    requires fixed { fixed_len kind ≤ length text.now }
    requires whole { whole_len kind text.now ≡ length text.now }
    requires room { SHORT_ANSWER ≤ length out.old }
    ensures answer { IfSome result (λ a. AnswersText V.view.outline (PoolCall V.view) kind phase text.now pool.old (take a.1 out.new) a.0 pool.new) }
    ensures sound { IfSome result (λ a. IsSound a.0) }
    ensures fits { IfSome result (λ a. a.1 ≤ length out.new) }
    ensures none { result ≡ None → (pool.new ≡ pool.old) × (length out.old < MAX_ANSWER) }
    ensures len { length out.new ≡ length out.old }
{
    let frame = read_frame(kind, text);
    answer(phase, frame, out, pool)
}

/// Where a session stands after a piece.
#[derive(Clone, Copy)]
pub struct Advanced {
    pub phase: Phase,
    pub filled: usize,
    pub taken: usize,
    pub sent: usize,
}

/// Makes the next part of a request.
fn go_on_with<V: Volumes>(
    volume: DevId,
    size: u64,
    manner: Manner,
    rest: Request,
    out: &mut [u8],
    pool: &mut V,
) -> Advanced
    requires size { size ≡ known_bytes (V.view.outline pool.old).geometry (V.view.more pool.old) volume }
    requires left { IsLeft size rest }
    requires room { 16 ≤ length out.old }
    ensures steps { GoesOn V.view.outline (PoolCall V.view) volume size manner rest (state (Phase.Transmission volume size (Course.Works manner rest)) []) pool.old
        result.taken (take result.sent out.new) (has_ended result.phase) (state result.phase []) pool.new }
    ensures filled { result.filled ≡ 0 }
    ensures sound { IsSound result.phase }
    ensures less { left_in result.phase < rest.len }
    ensures fits { result.sent ≤ length out.new }
    ensures len { length out.new ≡ length out.old }
{
    let (next, sent) = make_part(pool, volume, size, manner, rest, out);
    Advanced {
        phase: next,
        filled: 0,
        taken: 0,
        sent,
    }
}

/// Goes on without a frame: makes the next part of a request that has one, or drops a piece behind the end.
fn go_on<V: Volumes>(phase: Phase, out: &mut [u8], pool: &mut V, piece: &[u8]) -> Advanced
    requires deaf { kind_in phase ≡ None }
    requires ready { IsReady phase (V.view.outline pool.old) (V.view.more pool.old) }
    requires sound { IsSound phase }
    requires room { 16 ≤ length out.old }
    ensures steps { IsDeaf V.view.outline (PoolCall V.view) phase (state phase []) pool.old piece.now
        result.taken (take result.sent out.new) (has_ended result.phase) (state result.phase []) pool.new }
    ensures filled { result.filled ≡ 0 }
    ensures sound { IsSound result.phase }
    ensures less { is_at_work phase ≡ true → left_in result.phase < left_in phase }
    ensures fits { result.sent ≤ length out.new }
    ensures len { length out.new ≡ length out.old }
{
    match phase {
        Phase::Transmission {
            volume,
            size,
            course,
        } => match course {
            Course::Works { manner, rest } => go_on_with(volume, size, manner, rest, out, pool),
            Course::Listens { .. } => unreachable!(),
        },
        _ => Advanced {
            phase: Phase::Ended,
            filled: 0,
            taken: piece.len(),
            sent: 0,
        },
    }
}

/// Takes bytes up to the end of one frame, and answers it at the front of `out`. A frame that stands whole in the piece is not copied. None if `out`
/// has no room for the answer: then nothing was done.
pub fn advance<V: Cloned>(
    phase: Phase,
    filled: usize,
    input: &mut Vec<u8>,
    out: &mut [u8],
    pool: &mut V,
    piece: &[u8],
) -> Option<Advanced>
    requires ready { IsReady phase (V.view.outline pool.old) (V.view.more pool.old) }
    requires input { MAX_FRAME ≤ vec_capacity input.old }
    requires filled { filled ≤ length input.old.items }
    requires partial { filled < wanted_in phase (take filled input.old.items) }
    requires sound { IsSound phase }
    requires out { SHORT_ANSWER ≤ length out.old }
    ensures advances { IfSome result (λ a. Advances V.view (state phase (take filled input.old.items)) pool.old piece.now
        a.taken (take a.sent out.new) (has_ended a.phase)
        (state a.phase (take a.filled input.new.items)) pool.new) }
    ensures filled { IfSome result (λ a. a.filled ≤ length input.new.items) }
    ensures partial { IfSome result (λ a. a.filled < wanted_in a.phase (take a.filled input.new.items)) }
    ensures sound { IfSome result (λ a. IsSound a.phase) }
    ensures fits { IfSome result (λ a. a.sent ≤ length out.new) }
    ensures none { result ≡ None → (pool.new ≡ pool.old) × (length out.old < MAX_ANSWER) }
    ensures kept { result ≡ None → (take filled input.new.items ≡ take filled input.old.items) × (filled ≤ length input.new.items) }
    ensures capacity { vec_capacity input.old ≤ vec_capacity input.new }
    ensures out_len { length out.new ≡ length out.old }
{
    let Some(kind) = kind_of(&phase) else {
        return Some(go_on(phase, out, pool, piece));
    };
    if filled == 0 {
        let length = wanted(kind, piece);
        if length <= piece.len() {
            let Some(answer) = answer_text(phase, kind, &piece[..length], out, pool) else {
                return None;
            };
            return Some(Advanced {
                phase: answer.0,
                filled: 0,
                taken: length,
                sent: answer.1,
            });
        }
    }
    let gathered = gather(kind, input, filled, piece);
    let taken = gathered.end - filled;
    if !gathered.whole {
        return Some(Advanced {
            phase,
            filled: gathered.end,
            taken,
            sent: 0,
        });
    }
    let Some(answer) = answer_text(phase, kind, &input[..gathered.end], out, pool) else {
        return None;
    };
    Some(Advanced {
        phase: answer.0,
        filled: 0,
        taken,
        sent: answer.1,
    })
}
