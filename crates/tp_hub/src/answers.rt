//! What the hub answers.

ghost use Rattle.std.specs.Prelude.{◌≡◌, ℕ, List, ◌+◌, ◌-◌, ◌^◌, ◌<◌, ◌≤◌, [], ◌∷◌, ◌++◌, length, take, false, None, IfSome, IfOk, IfErr, OnErr, OnOk, IsOk, vec_len, vec_capacity};
ghost use Rattle.nbd_session.specs.Clauses.{Advances, IsReady};
ghost use Rattle.nbd_session.specs.Session.{is_at_work};
ghost use Rattle.tp_hub.specs.Flushed.{EndsFlush};
ghost use Rattle.tp_hub.specs.Places.{IsRead};
ghost use Rattle.tp_hub.specs.Runs.{closed_if, said};
ghost use Rattle.tp_hub.specs.Staged.{MakesFlush};
ghost use Rattle.std.specs.List.{list_any};
ghost use Rattle.tp_hub.specs.Carrying.{closes_in, is_close};
ghost use Rattle.tp_hub.specs.Told.{Grows, HasRoom, IsFull, KeepsRoom, Lines, Says, all_sent, end_mark, len_of, sent_mark, told, total};

use nbd_session::{Answered, MAX_ANSWER, SHORT_ANSWER, Session, give_back};
use nbd_wire::{COMMAND_READ, Frame, Kind, read_frame, wanted};
use std::alloc::{AllocError, Global};
use std::marker::Model;
use tp_model::{Cloned, Geometry, Refusal, SharedReads, Volumes};

/// The most bytes that the answers of a turn have: they take no more once they have those of one longest.
pub const MOST_BYTES: usize = 2 * MAX_ANSWER;

/// The bytes of a READ from which on its answer may be long.
const LONG_READ: u32 = 65_536;

/// One answer, whose bytes stand elsewhere.
#[derive(Clone, Copy, Debug, PartialEq, Eq)]
pub enum Mark {
    /// A session is sent so many bytes.
    Sent { session: u8, len: usize },
    /// A session is over, and its number is free.
    End { session: u8 },
    /// An event is refused: `SessionInUse` or `NoSession`, or as the text of a message or the pool says.
    Refused { reason: Refusal },
    /// A message is done.
    Done,
    /// A status line of so many bytes.
    Line { len: usize },
}

/// A list of answers. Their bytes stand end to end in one buffer, into which the pool reads. The
/// buffer is filled with zeros as far as it was used up to now, within the memory that it has.
pub struct Answers {
    bytes: Vec<u8>,
    /// For how many bytes there is memory, and for how many there may be.
    room: usize,
    most: usize,
    used: usize,
    marks: Vec<Mark>,
}

impl Model for Answers {
    ghost use Rattle.std.specs.Prelude.{◌≡◌, ◌≤◌, length, take, vec_capacity};
    ghost use Rattle.tp_hub.specs.Told.{Told, told, total};

    ghost Value = { Told };

    ghost view = { λ a. record { list = told a.marks.items (take a.used a.bytes.items); room = a.room; marks = vec_capacity a.marks; most = a.most } };

    ghost invariant = { λ a. (total a.marks.items ≡ a.used) × (a.used ≤ length a.bytes.items) × (length a.bytes.items ≤ a.room) × (a.room ≤ a.most) × (a.room ≤ vec_capacity a.bytes) };
}

impl Drop for Answers {
    fn drop(self) {
        let Answers {
            bytes,
            room: _,
            most: _,
            used: _,
            marks: _,
        } = self;
        give_back(bytes);
    }
}

impl Answers {
    /// No answers yet. It takes no memory. There is room for answers until memory is refused.
    pub fn new(alloc: Global) -> Answers
        ensures list { result.list ≡ [] }
        ensures most { result.most ≡ 2 ^ 64 - 1 }
    {
        empty(alloc, usize::MAX)
    }

    /// The same for the answers of a turn, which are `MOST_BYTES` bytes at most.
    pub fn of_a_turn(alloc: Global) -> Answers
        ensures list { result.list ≡ [] }
        ensures most { result.most ≡ MOST_BYTES }
    {
        empty(alloc, MOST_BYTES)
    }

    /// Makes room for one longest answer and an end. Where memory is refused, or the bytes would be more than these answers may
    /// have, nothing changes but the room.
    pub fn make_room(&mut self) -> Result<(), AllocError>
        ensures list { self.new.list ≡ self.old.list }
        ensures room { KeepsRoom self.old self.new }
        ensures marks { self.old.marks ≤ self.new.marks }
        ensures ok { OnOk result (HasRoom self.new) }
        ensures full { OnErr result (IsFull self.new) }
        ensures there { HasRoom self.old → IsOk result }
    {
        match reserve(&mut self.bytes, self.room, self.used, self.most) {
            Ok(room) => self.room = room,
            Err(error) => return Err(error),
        }
        lengthen(&mut self.marks)
    }

    /// Adds what is sent to a session.
    pub(crate) fn say(&mut self, session: u8, bytes: &[u8])
        requires bytes { length (all_sent self.old.list) + length bytes.now ≤ self.old.room }
        requires marks { length self.old.list < self.old.marks }
        ensures { Grows self.old self.new (Says session bytes.now ∷ []) }
    {
        let len = bytes.len();
        put_at(&mut self.bytes, self.used, bytes);
        self.used += len;
        add(&mut self.marks, Mark::Sent { session, len });
    }

    /// Adds a status line.
    pub fn tell(&mut self, line: &[u8])
        requires bytes { length (all_sent self.old.list) + length line.now ≤ self.old.room }
        requires marks { length self.old.list < self.old.marks }
        ensures { Grows self.old self.new (Lines line.now ∷ []) }
    {
        let len = line.len();
        put_at(&mut self.bytes, self.used, line);
        self.used += len;
        add(&mut self.marks, Mark::Line { len });
    }

    /// Adds an answer without bytes.
    pub fn note(&mut self, mark: Mark)
        requires marks { length self.old.list < self.old.marks }
        requires plain { len_of mark ≡ 0 }
        ensures { Grows self.old self.new (told (mark ∷ []) []) }
    {
        add(&mut self.marks, mark);
    }

    /// Takes a step of a session, whose answer goes to its place, and adds what it says.
    pub(crate) fn hear<V: Cloned>(
        &mut self,
        session: &mut Session,
        pool: &mut V,
        number: u8,
        piece: &[u8],
    ) -> Answered
        requires ready { IsReady session.old.phase (V.view.outline pool.old) (V.view.more pool.old) }
        requires room { HasRoom self.old }
        ensures { (sent : List ℕ) × Advances V.view session.old pool.old piece.now result.taken sent result.ended session.new pool.new
            × Grows self.old self.new (said number sent ++ closed_if number result.ended) }
    {
        let at = self.used;
        let step = step_in(session, pool, piece, &mut self.bytes, at, self.room);
        self.used += step.sent;
        tell_sent(&mut self.marks, number, step.sent);
        tell_end(&mut self.marks, number, step.ended);
        step
    }

    /// Takes the READ or BLOCK_STATUS with which a piece begins, by a shared read or walk, whose answer goes to its place, and adds what it says: how many bytes it
    /// has. None where the session does not answer it so, and then nothing changes.
    pub(crate) fn read_shared<V: Volumes, S: SharedReads<V>>(
        &mut self,
        session: &Session,
        pool: &S,
        number: u8,
        piece: &[u8],
    ) -> Option<usize>
        requires ready { IsReady session.now.phase (V.view.outline (S.of pool.now)) (V.view.more (S.of pool.now)) }
        requires room { HasRoom self.old }
        ensures read { IfSome result (λ taken. (sent : List ℕ) × IsRead V.view session.now (S.of pool.now) piece.now taken sent
            × Grows self.old self.new (said number sent ++ closed_if number false)) }
        ensures none { result ≡ None → self.new ≡ self.old }
    {
        let at = self.used;
        let Some(read) = read_in(session, pool, piece, &mut self.bytes, at, self.room) else {
            return None;
        };
        self.used += read.sent;
        tell_sent(&mut self.marks, number, read.sent);
        Some(read.taken)
    }

    /// Answers the FLUSH that a session would make next by a piece, as a flush was answered that was
    /// made for it, of a pool of these sizes: how many bytes of the piece that took. None if its next
    /// step makes no FLUSH.
    pub(crate) fn end_flush<V: Volumes>(
        &mut self,
        session: &mut Session,
        geometry: &Geometry,
        number: u8,
        piece: &[u8],
        answer: Result<(), Refusal>,
    ) -> Option<usize>
        requires room { HasRoom self.old }
        ensures ended { IfSome result (λ taken. (sent : List ℕ) × EndsFlush V.view geometry.now answer session.old piece.now taken sent session.new
            × Grows self.old self.new (said number sent ++ closed_if number false)) }
        ensures inside { IfSome result (λ taken. (taken ≤ length piece.now) × (is_at_work session.old.phase ≡ false → 0 < taken)) }
        ensures none { result ≡ None → MakesFlush session.old piece.now → ⊥ }
    {
        let at = self.used;
        match end_in::<V>(session, geometry, piece, answer, &mut self.bytes, at) {
            None => None,
            Some(end) => {
                self.used += end.sent;
                tell_sent(&mut self.marks, number, end.sent);
                Some(end.taken)
            }
        }
    }

    /// The marks of the answers, in order: what each says, where those that send or tell a line take their bytes from `bytes()`, one after another.
    pub fn marks(&self) -> &[Mark]
        ensures says { told result.now (all_sent self.now.list) ≡ self.now.list }
        ensures fits { total result.now ≡ length (all_sent self.now.list) }
        ensures count { length result.now ≡ length self.now.list }
    {
        self.marks.as_slice()
    }

    /// All bytes that are sent, and those of status lines, end to end.
    pub fn bytes(&self) -> &[u8]
        ensures all { result.now ≡ all_sent self.now.list }
        ensures few { length result.now ≤ self.now.most }
    {
        &self.bytes[..self.used]
    }

    /// Whether this session is over, or an event was refused.
    pub(crate) fn closes(&self, session: u8) -> bool
        ensures { result ≡ closes_in session self.now.list }
    {
        any_close(self.marks.as_slice(), session)
    }

    /// Forgets the answers, and keeps the room.
    pub fn clear(&mut self)
        ensures list { self.new.list ≡ [] }
        ensures room { self.new.room ≡ self.old.room }
        ensures marks { self.new.marks ≡ self.old.marks }
        ensures most { self.new.most ≡ self.old.most }
    {
        self.used = 0;
        self.marks.clear();
    }
}

/// No answers, of this many bytes at most.
fn empty(alloc: Global, most: usize) -> Answers
    ensures list { result.list ≡ [] }
    ensures most { result.most ≡ most }
{
    Answers {
        bytes: Vec::new(alloc),
        room: 0,
        most,
        used: 0,
        marks: Vec::new(alloc),
    }
}

/// Whether a mark says that this session is over, or that an event was refused.
fn closes(mark: &Mark, number: u8) -> bool
    ensures { result ≡ is_close number mark.now }
{
    match mark {
        Mark::Sent { .. } => false,
        Mark::End { session } => *session == number,
        Mark::Refused { .. } => true,
        Mark::Done | Mark::Line { .. } => false,
    }
}

/// Whether one of the marks does.
fn any_close(marks: &[Mark], number: u8) -> bool
    ensures { result ≡ list_any (is_close number) marks.now }
{
    marks.iter().any(|mark| closes(mark, number))
}

/// Adds a mark for which there is room.
fn add(marks: &mut Vec<Mark>, mark: Mark)
    requires { vec_len marks.old < vec_capacity marks.old }
    ensures items { marks.new.items ≡ marks.old.items ++ mark ∷ [] }
    ensures capacity { vec_capacity marks.old ≤ vec_capacity marks.new }
{
    let _ = marks.push(mark);
}

/// Puts bytes over others, at a place.
fn put_over(bytes: &mut Vec<u8>, at: usize, more: &[u8])
    requires { at + length more.now ≤ length bytes.old.items }
    ensures bytes { take (at + length more.now) bytes.new.items ≡ take at bytes.old.items ++ more.now }
    ensures len { length bytes.new.items ≡ length bytes.old.items }
    ensures capacity { vec_capacity bytes.old ≤ vec_capacity bytes.new }
{
    bytes[at..at + more.len()].copy_from_slice(more);
}

/// Puts bytes at a place for which there is memory.
fn put_at(bytes: &mut Vec<u8>, at: usize, more: &[u8])
    requires inside { at ≤ length bytes.old.items }
    requires room { at + length more.now ≤ vec_capacity bytes.old }
    ensures bytes { take (at + length more.now) bytes.new.items ≡ take at bytes.old.items ++ more.now }
    ensures fits { at + length more.now ≤ length bytes.new.items }
    ensures most { (most : ℕ) → length bytes.old.items ≤ most → at + length more.now ≤ most → length bytes.new.items ≤ most }
    ensures capacity { vec_capacity bytes.old ≤ vec_capacity bytes.new }
{
    widen(bytes, at + more.len());
    put_over(bytes, at, more);
}

/// Takes a step whose answer is put at a place. None if there is no room for it, and then nothing
/// was done.
fn step_at<V: Cloned>(
    session: &mut Session,
    pool: &mut V,
    piece: &[u8],
    bytes: &mut [u8],
    at: usize,
) -> Option<Answered>
    requires ready { IsReady session.old.phase (V.view.outline pool.old) (V.view.more pool.old) }
    requires room { at + SHORT_ANSWER ≤ length bytes.old }
    ensures steps { IfSome result (λ a. (sent : List ℕ) × (length sent ≡ a.sent) × (take (at + a.sent) bytes.new ≡ take at bytes.old ++ sent)
        × Advances V.view session.old pool.old piece.now a.taken sent a.ended session.new pool.new) }
    ensures fits { IfSome result (λ a. at + a.sent ≤ length bytes.new) }
    ensures kept { take at bytes.new ≡ take at bytes.old }
    ensures none { result ≡ None → (session.new ≡ session.old) × (pool.new ≡ pool.old) × (length bytes.old < at + MAX_ANSWER) }
    ensures len { length bytes.new ≡ length bytes.old }
{
    session.step_into(pool, piece, &mut bytes[at..])
}

/// Takes a step whose answer is put at a place of a buffer, which is widened for the longest answer.
fn step_wide<V: Cloned>(
    session: &mut Session,
    pool: &mut V,
    piece: &[u8],
    bytes: &mut Vec<u8>,
    at: usize,
    room: usize,
) -> Answered
    requires ready { IsReady session.old.phase (V.view.outline pool.old) (V.view.more pool.old) }
    requires inside { at ≤ length bytes.old.items }
    requires most { length bytes.old.items ≤ room }
    requires room { at + MAX_ANSWER ≤ room }
    requires capacity { room ≤ vec_capacity bytes.old }
    ensures steps { (sent : List ℕ) × (length sent ≡ result.sent) × (take (at + result.sent) bytes.new.items ≡ take at bytes.old.items ++ sent)
        × Advances V.view session.old pool.old piece.now result.taken sent result.ended session.new pool.new }
    ensures fits { at + result.sent ≤ length bytes.new.items }
    ensures most { length bytes.new.items ≤ room }
    ensures capacity { room ≤ vec_capacity bytes.new }
{
    widen(bytes, at + MAX_ANSWER);
    step_at(session, pool, piece, bytes, at).unwrap()
}

/// Takes a step whose answer is put at a place of a buffer that has memory for it.
fn step_in<V: Cloned>(
    session: &mut Session,
    pool: &mut V,
    piece: &[u8],
    bytes: &mut Vec<u8>,
    at: usize,
    room: usize,
) -> Answered
    requires ready { IsReady session.old.phase (V.view.outline pool.old) (V.view.more pool.old) }
    requires inside { at ≤ length bytes.old.items }
    requires most { length bytes.old.items ≤ room }
    requires room { at + MAX_ANSWER ≤ room }
    requires capacity { room ≤ vec_capacity bytes.old }
    ensures steps { (sent : List ℕ) × (length sent ≡ result.sent) × (take (at + result.sent) bytes.new.items ≡ take at bytes.old.items ++ sent)
        × Advances V.view session.old pool.old piece.now result.taken sent result.ended session.new pool.new }
    ensures fits { at + result.sent ≤ length bytes.new.items }
    ensures most { length bytes.new.items ≤ room }
    ensures capacity { room ≤ vec_capacity bytes.new }
{
    widen(bytes, at + SHORT_ANSWER);
    match step_at(session, pool, piece, bytes, at) {
        Some(step) => step,
        None => step_wide(session, pool, piece, bytes, at, room),
    }
}

/// Answers a READ by a shared read, or a BLOCK_STATUS by a shared walk, whose answer is put at a place.
fn read_at<V: Volumes, S: SharedReads<V>>(
    session: &Session,
    pool: &S,
    piece: &[u8],
    bytes: &mut [u8],
    at: usize,
) -> Option<Answered>
    requires ready { IsReady session.now.phase (V.view.outline (S.of pool.now)) (V.view.more (S.of pool.now)) }
    requires room { at + SHORT_ANSWER ≤ length bytes.old }
    ensures reads { IfSome result (λ a. (sent : List ℕ) × (length sent ≡ a.sent) × (take (at + a.sent) bytes.new ≡ take at bytes.old ++ sent)
        × IsRead V.view session.now (S.of pool.now) piece.now a.taken sent) }
    ensures fits { IfSome result (λ a. at + a.sent ≤ length bytes.new) }
    ensures kept { take at bytes.new ≡ take at bytes.old }
    ensures len { length bytes.new ≡ length bytes.old }
{
    session.read_shared(pool, piece, &mut bytes[at..])
}

/// Whether a READ of 64 KiB or more stands whole at the front of a piece.
fn begins_with_long_read(piece: &[u8]) -> bool {
    let length = wanted(Kind::Requests, piece);
    if length > piece.len() {
        return false;
    }
    match read_frame(Kind::Requests, &piece[..length]) {
        Frame::Command { request, .. } => {
            request.kind == COMMAND_READ && request.len >= LONG_READ
        }
        _ => false,
    }
}

/// How long a buffer is to be for the answer to the READ with which a piece begins.
fn len_for(piece: &[u8], at: usize) -> usize
    requires { at + MAX_ANSWER ≤ 2 ^ 64 - 1 }
    ensures least { at + SHORT_ANSWER ≤ result }
    ensures most { result ≤ at + MAX_ANSWER }
{
    if begins_with_long_read(piece) {
        at + MAX_ANSWER
    } else {
        at + SHORT_ANSWER
    }
}

/// Zeros behind the bytes of a buffer, for the answer to the READ with which a piece begins.
fn widen_for(bytes: &mut Vec<u8>, piece: &[u8], at: usize, room: usize)
    requires most { length bytes.old.items ≤ room }
    requires room { at + MAX_ANSWER ≤ room }
    requires capacity { room ≤ vec_capacity bytes.old }
    ensures kept { (n : ℕ) → n ≤ length bytes.old.items → take n bytes.new.items ≡ take n bytes.old.items }
    ensures long { at + SHORT_ANSWER ≤ length bytes.new.items }
    ensures longer { length bytes.old.items ≤ length bytes.new.items }
    ensures most { length bytes.new.items ≤ room }
    ensures capacity { vec_capacity bytes.old ≤ vec_capacity bytes.new }
{
    if bytes.len() >= room {
        return;
    }
    widen(bytes, len_for(piece, at));
}

/// The same at a place of a buffer that has memory for it.
fn read_in<V: Volumes, S: SharedReads<V>>(
    session: &Session,
    pool: &S,
    piece: &[u8],
    bytes: &mut Vec<u8>,
    at: usize,
    room: usize,
) -> Option<Answered>
    requires ready { IsReady session.now.phase (V.view.outline (S.of pool.now)) (V.view.more (S.of pool.now)) }
    requires inside { at ≤ length bytes.old.items }
    requires most { length bytes.old.items ≤ room }
    requires room { at + MAX_ANSWER ≤ room }
    requires capacity { room ≤ vec_capacity bytes.old }
    ensures reads { IfSome result (λ a. (sent : List ℕ) × (length sent ≡ a.sent) × (take (at + a.sent) bytes.new.items ≡ take at bytes.old.items ++ sent)
        × IsRead V.view session.now (S.of pool.now) piece.now a.taken sent) }
    ensures fits { IfSome result (λ a. at + a.sent ≤ length bytes.new.items) }
    ensures kept { take at bytes.new.items ≡ take at bytes.old.items }
    ensures inside { at ≤ length bytes.new.items }
    ensures most { length bytes.new.items ≤ room }
    ensures capacity { vec_capacity bytes.old ≤ vec_capacity bytes.new }
{
    widen_for(bytes, piece, at, room);
    read_at(session, pool, piece, bytes, at)
}

/// Answers the FLUSH that a session would make next, whose answer is put at a place.
fn end_at<V: Volumes>(
    session: &mut Session,
    geometry: &Geometry,
    piece: &[u8],
    answer: Result<(), Refusal>,
    bytes: &mut [u8],
    at: usize,
) -> Option<Answered>
    requires room { at + SHORT_ANSWER ≤ length bytes.old }
    ensures ended { IfSome result (λ a. (sent : List ℕ) × (length sent ≡ a.sent) × (take (at + a.sent) bytes.new ≡ take at bytes.old ++ sent)
        × EndsFlush V.view geometry.now answer session.old piece.now a.taken sent session.new) }
    ensures inside { IfSome result (λ a. (a.taken ≤ length piece.now) × (is_at_work session.old.phase ≡ false → 0 < a.taken)) }
    ensures fits { IfSome result (λ a. at + a.sent ≤ length bytes.new) }
    ensures kept { take at bytes.new ≡ take at bytes.old }
    ensures none { result ≡ None → MakesFlush session.old piece.now → ⊥ }
    ensures len { length bytes.new ≡ length bytes.old }
{
    session.end_flush::<V>(geometry, piece, answer, &mut bytes[at..])
}

/// The same at a place of a buffer that has memory for it.
fn end_in<V: Volumes>(
    session: &mut Session,
    geometry: &Geometry,
    piece: &[u8],
    answer: Result<(), Refusal>,
    bytes: &mut Vec<u8>,
    at: usize,
) -> Option<Answered>
    requires inside { at ≤ length bytes.old.items }
    requires capacity { at + SHORT_ANSWER ≤ vec_capacity bytes.old }
    ensures ended { IfSome result (λ a. (sent : List ℕ) × (length sent ≡ a.sent) × (take (at + a.sent) bytes.new.items ≡ take at bytes.old.items ++ sent)
        × EndsFlush V.view geometry.now answer session.old piece.now a.taken sent session.new) }
    ensures taken { IfSome result (λ a. (a.taken ≤ length piece.now) × (is_at_work session.old.phase ≡ false → 0 < a.taken)) }
    ensures fits { IfSome result (λ a. at + a.sent ≤ length bytes.new.items) }
    ensures kept { take at bytes.new.items ≡ take at bytes.old.items }
    ensures inside { at ≤ length bytes.new.items }
    ensures most { (most : ℕ) → length bytes.old.items ≤ most → at + SHORT_ANSWER ≤ most → length bytes.new.items ≤ most }
    ensures none { result ≡ None → MakesFlush session.old piece.now → ⊥ }
    ensures capacity { vec_capacity bytes.old ≤ vec_capacity bytes.new }
{
    widen(bytes, at + SHORT_ANSWER);
    end_at::<V>(session, geometry, piece, answer, bytes, at)
}

/// Says that so many bytes are sent, if there are any.
fn tell_sent(marks: &mut Vec<Mark>, session: u8, len: usize)
    requires { vec_len marks.old < vec_capacity marks.old }
    ensures items { marks.new.items ≡ marks.old.items ++ sent_mark session len }
    ensures capacity { vec_capacity marks.old ≤ vec_capacity marks.new }
{
    if len == 0 {
        return;
    }
    add(marks, Mark::Sent { session, len });
}

/// Says that a session is over, if it is.
fn tell_end(marks: &mut Vec<Mark>, session: u8, ended: bool)
    requires { vec_len marks.old < vec_capacity marks.old }
    ensures items { marks.new.items ≡ marks.old.items ++ end_mark session ended }
    ensures capacity { vec_capacity marks.old ≤ vec_capacity marks.new }
{
    if !ended {
        return;
    }
    add(marks, Mark::End { session });
}

/// Zeros behind the bytes of a buffer, up to a length for which there is memory.
fn widen(bytes: &mut Vec<u8>, len: usize)
    requires room { len ≤ vec_capacity bytes.old }
    ensures kept { (n : ℕ) → n ≤ length bytes.old.items → take n bytes.new.items ≡ take n bytes.old.items }
    ensures long { len ≤ length bytes.new.items }
    ensures longer { length bytes.old.items ≤ length bytes.new.items }
    ensures most { (most : ℕ) → length bytes.old.items ≤ most → len ≤ most → length bytes.new.items ≤ most }
    ensures capacity { vec_capacity bytes.old ≤ vec_capacity bytes.new }
{
    if bytes.len() < len {
        let _ = bytes.resize(len, 0);
    }
}

/// Memory for one longest answer behind what is used: for how many bytes there is memory then. As
/// much again is asked for with it, if there may be so much: who makes room for a turn before a lock
/// is taken asks for none under it. None of it is touched.
fn reserve(bytes: &mut Vec<u8>, room: usize, used: usize, most: usize) -> Result<usize, AllocError>
    requires used { used ≤ length bytes.old.items }
    requires inside { length bytes.old.items ≤ room }
    requires most { room ≤ most }
    requires capacity { room ≤ vec_capacity bytes.old }
    ensures items { bytes.new.items ≡ bytes.old.items }
    ensures ok { IfOk result (λ r. (used + MAX_ANSWER ≤ r) × (room ≤ r) × (r ≤ most) × (r ≤ vec_capacity bytes.new)) }
    ensures full { IfErr result (λ e. room < used + MAX_ANSWER) }
    ensures there { used + MAX_ANSWER ≤ room → IsOk result }
    ensures capacity { vec_capacity bytes.old ≤ vec_capacity bytes.new }
{
    if room - used >= MAX_ANSWER {
        return Ok(room);
    }
    if most - used < MAX_ANSWER {
        return Err(AllocError);
    }
    let len = (used + MAX_ANSWER).saturating_mul(2).min(most);
    bytes.reserve_exact(len - bytes.len())?;
    Ok(len)
}

/// Room for two marks more.
fn lengthen(marks: &mut Vec<Mark>) -> Result<(), AllocError>
    ensures items { marks.new.items ≡ marks.old.items }
    ensures capacity { vec_capacity marks.old ≤ vec_capacity marks.new }
    ensures ok { OnOk result (length marks.new.items + 2 ≤ vec_capacity marks.new) }
    ensures full { OnErr result (vec_capacity marks.new < length marks.new.items + 2) }
    ensures there { length marks.old.items + 2 ≤ vec_capacity marks.old → IsOk result }
{
    marks.reserve(2)
}
