//! A session over its buffers.

ghost use Rattle.std.specs.Prelude.{◌≡◌, ◌<◌, ◌≤◌, [], false, length, take, vec_capacity, IfOk, IfErr, IfSome, None, ⊤};

use crate::advance::{advance, has_ended_in, kind_of};
use crate::answer::{MAX_ANSWER, SHORT_ANSWER, end};
use crate::batch::next_len;
use crate::buffers::give_back;
use crate::flushes::{flushed, is_at_flush};
use crate::phase::{Phase, Profile, has_older, is_at_work, is_to_flush};
use crate::shared::take_read;
use nbd_wire::{MAX_FRAME, put_greeting};
use std::alloc::Global;
use std::marker::Model;
use tp_model::{Cloned, Geometry, Refusal, SharedReads, Volumes};

/// The bytes of the greeting.
const GREETING: usize = 18;

/// One client. It reserves its buffers when it is opened, and asks for no memory after that. What
/// it does not use of them is never touched.
pub struct Session {
    phase: Phase,
    filled: usize,
    input: Vec<u8>,
    output: Vec<u8>,
}

impl Model for Session {
    ghost use Rattle.std.specs.Prelude.{take, vec_capacity};
    ghost use Rattle.nbd_session.specs.Session.{State, state};
    ghost use Rattle.nbd_session.specs.Buffers.{AreBuffers};

    ghost Value = { State };

    ghost view = { λ s. state s.phase (take s.filled s.input.items) };

    ghost invariant = { λ s. AreBuffers s.phase s.filled s.input.items s.output.items (vec_capacity s.input) (vec_capacity s.output) };
}

impl Drop for Session {
    fn drop(self) {
        let Session {
            phase: _,
            filled: _,
            input,
            output,
        } = self;
        give_back(input);
        give_back(output);
    }
}

/// What a step took of the piece, what it sends, and whether the session has ended.
#[derive(Clone, Copy, Debug)]
pub struct Step<'a> {
    /// How many bytes of the piece were taken: none where it made a part of a request, else at least one where there is one.
    pub taken: usize,
    /// The answer to the frame, none where it has none.
    pub sent: &'a [u8],
    /// Whether the session has ended: what comes now is dropped.
    pub ended: bool,
}

/// What a step took of the piece, how many bytes it put into the buffer that it was given, and whether the session has ended.
#[derive(Clone, Copy, Debug, PartialEq, Eq)]
pub struct Answered {
    /// How many bytes of the piece were taken: none where it made a part of a request, else at least one where there is one.
    pub taken: usize,
    /// How many bytes the answer to the frame has, 0 where it has none.
    pub sent: usize,
    /// Whether the session has ended: what comes now is dropped.
    pub ended: bool,
}

impl Session {
    ghost use Rattle.std.specs.Borrow.{sem};
    ghost use Rattle.nbd_wire.specs.Replies.{greeting};
    ghost use Rattle.std.specs.Prelude.{None, true};
    ghost use Rattle.tp_model.specs.Flushing.{IsFlushed};
    ghost use Rattle.nbd_session.specs.Flushes.{IsAtFlush};
    ghost use Rattle.nbd_session.specs.Requests.{BeginsWith, is_look};
    ghost use Rattle.nbd_session.specs.Batches.{IsBatchOf};
    ghost use Rattle.nbd_session.specs.Session.{has_older, is_at_work, is_to_flush, kind_of, left_in, state};
    ghost use Rattle.nbd_session.specs.Clauses.{Advances, IsCalm, IsReady, Leaves};
    ghost use Rattle.nbd_session.specs.contracts.session.Session.{the_row};
    ghost use mathlib.Core.Option.{none};
    ghost use denote.Follow.{follows_so};

    /// A session that has sent and received nothing, or `Memory`, where its buffers are refused. It reserves 1,048,604 bytes
    /// for what comes and 2,097,172 for what goes.
    pub fn open(alloc: Global, profile: Profile) -> Result<Session, Refusal>
        ensures opened { IfOk result (λ s. s ≡ state (Phase.Flags profile) []) }
        ensures refused { IfErr result (λ e. e ≡ Refusal.Memory) }
    {
        let Ok(input) = Vec::with_capacity(alloc, MAX_FRAME) else {
            return Err(Refusal::Memory);
        };
        let Ok(mut output) = Vec::with_capacity(alloc, MAX_ANSWER) else {
            return Err(Refusal::Memory);
        };
        widen(&mut output, GREETING);
        Ok(Session {
            phase: Phase::Flags { profile },
            filled: 0,
            input,
            output,
        })
    }

    /// What the client may send next.
    pub fn phase(&self) -> Phase
        ensures phase { result ≡ self.now.phase }
        ensures calm { IsCalm self.now }
        ensures few { left_in self.now.phase < 4294967296 }
    {
        self.phase
    }

    /// Whether it has a request of which parts are left: each step makes one, and takes nothing, until there is none.
    pub fn is_at_work(&self) -> bool
        ensures { result ≡ is_at_work self.now.phase }
    {
        is_at_work(self.phase)
    }

    /// Whether nothing but a FLUSH is left of that request: the next step keeps what was written.
    pub fn is_to_flush(&self) -> bool
        ensures { result ≡ is_to_flush self.now.phase }
    {
        is_to_flush(self.phase)
    }

    /// Whether its next frame is a FLUSH that passes its tests and stands whole at the front of a
    /// piece, while it holds no part of a frame.
    pub fn begins_flush(&self, piece: &[u8]) -> bool
        ensures at { result ≡ true → IsAtFlush self.now piece.now }
        ensures not_at { result ≡ false → IsAtFlush self.now piece.now → ⊥ }
    {
        if self.filled > 0 {
            return false;
        }
        is_at_flush(self.phase, piece)
    }

    /// How many bytes of a piece it takes before others may have the pool: up to the end of the frame
    /// of which it holds a part, and else of its first 16 frames at most, or up to a FLUSH or a LIST,
    /// and of one of these alone.
    pub fn batch_len(&self, piece: &[u8]) -> usize
        ensures few { IsBatchOf self.now piece.now result }
        ensures most { result ≤ length piece.now }
        ensures some { 0 < length piece.now → 0 < result }
    {
        match kind_of(&self.phase) {
            None => piece.len(),
            Some(kind) => next_len(kind, &self.input[..self.filled], piece),
        }
    }

    /// Whether it is told since an older volume, at which its BLOCK_STATUSes look too.
    pub fn has_older(&self) -> bool
        ensures { result ≡ has_older self.now.phase }
    {
        has_older(self.phase)
    }

    /// What is sent before anything comes. It changes nothing.
    pub fn greeting(&mut self) -> &[u8]
        ensures* greets { sem 𝓛 (follows_so the_row the_row self.entry.ghost_name none (λ _ _. ⊤)
            (λ new. (result.now ≡ greeting) × (new ≡ self.old))) }
    {
        let end = put_greeting(&mut self.output, 0);
        &self.output[..end]
    }

    /// The end of a session, at any moment: it lets the volumes go that it holds, deletes its own where it is a clone, sends nothing and does nothing else. What it has of an
    /// unfinished frame has no effect.
    pub fn leave<V: Cloned>(self, pool: &mut V)
        requires { IsReady self.phase (V.view.outline pool.old) (V.view.more pool.old) }
        ensures { Leaves V.view self.phase pool.old pool.new }
    {
        end(self.phase(), pool);
    }

    /// Takes bytes of a piece, up to the end of one frame, and answers that frame in the step that takes its last byte: from the
    /// frame, and from what the pool answered to the calls that the frame makes of it: LIST one for each volume and one more, an option
    /// that looks for a volume one, one that holds it and one that tells its size, and one more where it is to tell since an older volume;
    /// another frame one at most, BLOCK_STATUS a walk or two, and a long READ in chunks a walk more. An option that makes a clone asks for a snapshot under one id
    /// after the other, up to one that no volume has. Where the size of a volume that is held is refused, it is let go, and deleted where it is a clone. A session holds the older volume that
    /// SET_META_CONTEXT named and told of, until another one takes its place or it is told of none: then it is let go. Over a pool that has a trace this is a step of the traced plain pool: bytes, faults and what a
    /// stop leaves at any moment of it stand on one trace.
    ///
    /// A frame that stands whole in the piece is used from there, and what a READ gives goes from the pool to its place in the answer.
    ///
    /// What is held of the pool is what the session holds, and at most 126 holds of others: so there is room for the two volumes that a session may hold. In transmission its own
    /// volume has the size that was told when it began.
    pub fn step<V: Cloned>(&mut self, pool: &mut V, piece: &[u8]) -> Step<'_>
        requires { IsReady self.old.phase (V.view.outline pool.old) (V.view.more pool.old) }
        ensures* steps { sem 𝓛 (follows_so the_row the_row self.entry.ghost_name none (λ _ _. ⊤)
            (λ new. Advances V.view self.old pool.old piece.now result.taken result.sent.now result.ended new pool.new)) }
    {
        widen(&mut self.output, MAX_ANSWER);
        let next = advance(
            self.phase,
            self.filled,
            &mut self.input,
            &mut self.output,
            pool,
            piece,
        )
        .unwrap();
        self.phase = next.phase;
        self.filled = next.filled;
        Step {
            taken: next.taken,
            sent: &self.output[..next.sent],
            ended: has_ended_in(next.phase),
        }
    }

    /// The same as `step`, with the answer at the front of a buffer that is given. None if it has no
    /// room for the answer: then nothing was done. It has room for each if it has `MAX_ANSWER` bytes.
    pub fn step_into<V: Cloned>(
        &mut self,
        pool: &mut V,
        piece: &[u8],
        out: &mut [u8],
    ) -> Option<Answered>
        requires ready { IsReady self.old.phase (V.view.outline pool.old) (V.view.more pool.old) }
        requires room { SHORT_ANSWER ≤ length out.old }
        ensures steps { IfSome result (λ a. Advances V.view self.old pool.old piece.now a.taken (take a.sent out.new) a.ended self.new pool.new) }
        ensures fits { IfSome result (λ a. a.sent ≤ length out.new) }
        ensures none { result ≡ None → (self.new ≡ self.old) × (pool.new ≡ pool.old) × (length out.old < MAX_ANSWER) }
        ensures len { length out.new ≡ length out.old }
    {
        let Some(next) = advance(self.phase, self.filled, &mut self.input, out, pool, piece) else {
            return None;
        };
        self.phase = next.phase;
        self.filled = next.filled;
        Some(Answered {
            taken: next.taken,
            sent: next.sent,
            ended: has_ended_in(next.phase),
        })
    }

    /// Answers the FLUSH that it would make next by a flush that was made elsewhere, of a pool of
    /// these sizes: the FLUSH with which a piece begins, or the one that is left of its request. It is
    /// a step, with the answer at the front of a buffer, and makes no call of the pool. None where
    /// its next step makes no FLUSH, and then nothing was done.
    pub fn end_flush<V: Volumes>(
        &mut self,
        geometry: &Geometry,
        piece: &[u8],
        answer: Result<(), Refusal>,
        out: &mut [u8],
    ) -> Option<Answered>
        requires room { SHORT_ANSWER ≤ length out.old }
        ensures steps { IfSome result (λ a. (p q : V) → (V.view.outline p).geometry ≡ geometry.now → IsReady self.old.phase (V.view.outline p) (V.view.more p) → IsFlushed V.view p q answer
            → Advances V.view self.old p piece.now a.taken (take a.sent out.new) a.ended self.new q) }
        ensures open { IfSome result (λ a. (a.ended ≡ false) × (a.taken ≤ length piece.now) × (is_at_work self.old.phase ≡ false → 0 < a.taken)) }
        ensures fits { IfSome result (λ a. a.sent ≤ length out.new) }
        ensures none { result ≡ None → self.new ≡ self.old }
        ensures none_left { result ≡ None → is_to_flush self.old.phase ≡ false }
        ensures none_at { result ≡ None → IsAtFlush self.old piece.now → ⊥ }
        ensures len { length out.new ≡ length out.old }
    {
        if self.filled > 0 {
            return None;
        }
        let Some(next) = flushed::<V>(self.phase, geometry, piece, answer, out) else {
            return None;
        };
        self.phase = next.phase;
        self.filled = next.filled;
        Some(Answered {
            taken: next.taken,
            sent: next.sent,
            ended: false,
        })
    }

    /// Answers the READ or BLOCK_STATUS with which a piece begins, by a shared read or walk: a step, with the answer at the front of the buffer, that leaves the
    /// session and the pool as they are. None where that cannot be, and then nothing was done, but that the buffer may hold anything: a step is to be taken. So it
    /// is where none of both stands whole at the front of the piece, bytes of an unfinished frame are held, a test of the request fails or it is of no bytes, the
    /// buffer has no room for the answer, or the pool has no shared read or walk of it.
    pub fn read_shared<V: Volumes, S: SharedReads<V>>(
        &self,
        pool: &S,
        piece: &[u8],
        out: &mut [u8],
    ) -> Option<Answered>
        requires ready { IsReady self.now.phase (V.view.outline (S.of pool.now)) (V.view.more (S.of pool.now)) }
        requires room { SHORT_ANSWER ≤ length out.old }
        ensures steps { IfSome result (λ a. Advances V.view self.now (S.of pool.now) piece.now a.taken (take a.sent out.new) a.ended self.now (S.of pool.now)) }
        ensures begins { IfSome result (λ a. BeginsWith is_look piece.now) }
        ensures goes_on { IfSome result (λ a. (a.ended ≡ false) × (0 < a.taken) × (a.taken ≤ length piece.now)) }
        ensures fits { IfSome result (λ a. a.sent ≤ length out.new) }
        ensures len { length out.new ≡ length out.old }
    {
        if self.filled > 0 {
            return None;
        }
        take_read(self.phase, pool, piece, out)
    }
}

/// Zeros up to a length for which a buffer has memory.
fn widen(bytes: &mut Vec<u8>, len: usize)
    requires room { len ≤ vec_capacity bytes.old }
    requires longer { length bytes.old.items ≤ len }
    ensures len { length bytes.new.items ≡ len }
    ensures capacity { vec_capacity bytes.old ≤ vec_capacity bytes.new }
{
    let _ = bytes.resize(len, 0);
}
