//! The answer to one frame.

ghost use Rattle.std.specs.Prelude.{◌≡◌, ◌≤◌, ◌<◌, ◌+◌, ◌/◌, ℕ, [], ◌∷◌, true, false, length, take, drop, IfSome, MatchBool, None};
ghost use Rattle.tp_model.specs.Sectors.{sectors_of};
ghost use Rattle.tp_model.specs.Pool.{hold_count};
ghost use Rattle.tp_model.specs.Calls.{Done, LetGo, Refused, Read, Write, Trim, WriteZeroes, Flush};
ghost use Rattle.tp_model.specs.Refusals.{nbd_code, nbd_error};
ghost use Rattle.nbd_wire.specs.Chunks.{data_chunk, error_chunk};
ghost use Rattle.nbd_wire.specs.Grammar.{payload_len};
ghost use Rattle.nbd_wire.specs.declared.TheConstants.{COMMAND_READ, OPTION_LIST};
ghost use Rattle.nbd_wire.specs.Reading.{message_of};
ghost use Rattle.nbd_wire.specs.Replies.{simple_reply};
ghost use Rattle.nbd_session.specs.Requests.{IsWhole, has_no_hole, is_kept_apart, known_bytes, to_keep, verdict_in, wants_fua};
ghost use Rattle.nbd_session.specs.Session.{Answers, AnswersRead, Begins, Changes, GivesUp, LetsGo, LetsOwnGo, Performs, ReadsInChunks, Serves, chunk_to, empty_reply, error_reply, manner_in, own_in, reply_to, terms_of};
ghost use Rattle.nbd_session.specs.Buffers.{IsSound};
ghost use Rattle.tp_model.specs.Clauses.{PoolCall};
ghost use Rattle.nbd_session.specs.Clauses.{IsOf, IsReady};

use crate::clones::give_up;
use crate::holes::{may_have_holes, read_long};
use crate::older::{answer_option, let_older_go};
use crate::phase::{
    ContextOf, Course, Manner, NO_VOLUME, Phase, Profile, Terms, is_of_clone, older_in,
};
use crate::request::{Verdict, is_chunked, judge_in};
use crate::status::describe;
use nbd_wire::{
    COMMAND_FLUSH, COMMAND_READ, Frame, OPTION_LIST, Request, put_data_head, put_done_chunk,
    put_error_chunk, put_simple_reply_head,
};
use tp_model::{Cloned, DevId, NbdError, Refusal, Volumes, Walked};

/// The longest answer, to LIST, in bytes.
pub const MAX_ANSWER: usize = 2_097_172;

/// The longest answer to a frame other than LIST and READs of 64 KiB or more, in bytes.
pub const SHORT_ANSWER: usize = 65_564;

/// Whether a buffer of `len` bytes has room for the answer to a request.
pub(crate) fn has_room(request: &Request, len: usize) -> bool
    ensures long { result ≡ true → request.now.kind ≡ COMMAND_READ → 65536 ≤ request.now.len → 2097172 ≤ len }
    ensures none { result ≡ false → len < MAX_ANSWER }
{
    if len >= MAX_ANSWER {
        return true;
    }
    if request.kind != COMMAND_READ {
        return true;
    }
    request.len < 65_536
}

/// Whether a buffer of `len` bytes has room for the answer to an option.
fn has_room_for_option(option: u32, len: usize) -> bool
    ensures long { result ≡ true → option ≡ OPTION_LIST → 2097172 ≤ len }
    ensures none { result ≡ false → len < MAX_ANSWER }
{
    if len >= MAX_ANSWER {
        return true;
    }
    option != OPTION_LIST
}

/// A simple reply without data, at the front.
pub(crate) fn put_reply(out: &mut [u8], error: u32, cookie: u64) -> usize
    requires { 16 ≤ length out.old }
    ensures reply { take result out.new ≡ simple_reply error cookie [] }
    ensures fits { result ≤ length out.new }
    ensures len { length out.new ≡ length out.old }
{
    put_simple_reply_head(out, 0, error, cookie)
}

/// The reply to a request that the pool refused.
pub(crate) fn put_refusal(out: &mut [u8], refusal: Refusal, cookie: u64) -> usize
    requires { 16 ≤ length out.old }
    ensures reply { take result out.new ≡ reply_to cookie (Refused refusal) }
    ensures fits { result ≤ length out.new }
    ensures len { length out.new ≡ length out.old }
{
    put_reply(out, refusal.nbd_error().code(), cookie)
}

/// Puts the reply to a READ before its data, which stands there already.
pub fn put_read_head(out: &mut [u8], cookie: u64, len: usize) -> usize
    requires { 16 + len ≤ length out.old }
    ensures reply { take result out.new ≡ simple_reply 0 cookie (take len (drop 16 out.old)) }
    ensures fits { result ≤ length out.new }
    ensures len { length out.new ≡ length out.old }
{
    put_simple_reply_head(out, 0, 0, cookie);
    16 + len
}

/// The chunk that answers a request by this error.
pub(crate) fn put_error_of(out: &mut [u8], error: NbdError, cookie: u64) -> usize
    requires { 26 ≤ length out.old }
    ensures reply { take result out.new ≡ error_chunk (nbd_code error) cookie }
    ensures fits { result ≤ length out.new }
    ensures len { length out.new ≡ length out.old }
{
    put_error_chunk(out, 0, error.code(), cookie)
}

/// The chunk that answers a request which the pool refused.
pub(crate) fn put_refusal_chunk(out: &mut [u8], refusal: Refusal, cookie: u64) -> usize
    requires { 26 ≤ length out.old }
    ensures reply { take result out.new ≡ error_chunk (nbd_code (nbd_error refusal)) cookie }
    ensures fits { result ≤ length out.new }
    ensures len { length out.new ≡ length out.old }
{
    put_error_of(out, refusal.nbd_error(), cookie)
}

/// Puts the head of the one chunk that answers a READ before its data, which stands there already.
pub(crate) fn put_read_chunk_head(out: &mut [u8], request: &Request) -> usize
    requires most { request.now.len ≤ 1048576 }
    requires room { 28 + request.now.len ≤ length out.old }
    ensures reply { take result out.new ≡ data_chunk true request.now.cookie request.now.offset (take request.now.len (drop 28 out.old)) }
    ensures fits { result ≤ length out.new }
    ensures len { length out.new ≡ length out.old }
{
    put_data_head(out, 0, true, request.cookie, request.offset, request.len);
    28 + request.len as usize
}

/// A READ of some sectors that is answered by a simple reply, whose data goes to its place behind the reply's head.
fn read_simply<V: Volumes>(pool: &mut V, volume: DevId, request: &Request, out: &mut [u8]) -> usize
    requires form { IsWhole (known_bytes (V.view.outline pool.old).geometry (V.view.more pool.old) volume) request.now }
    requires room { 16 + request.now.len ≤ length out.old }
    ensures answer { Performs V.view.outline (PoolCall V.view) (Read volume (request.now.offset / 512) (request.now.len / 512)) (reply_to request.now.cookie)
        pool.old (take result out.new) pool.new }
    ensures fits { result ≤ length out.new }
    ensures len { length out.new ≡ length out.old }
{
    let len = request.len as usize;
    match pool.read(volume, request.offset / 512, &mut out[16..16 + len]) {
        Ok(()) => put_read_head(out, request.cookie, len),
        Err(refusal) => put_refusal(out, refusal, request.cookie),
    }
}

/// The same in one chunk.
fn read_in_chunk<V: Volumes>(
    pool: &mut V,
    volume: DevId,
    request: &Request,
    out: &mut [u8],
) -> usize
    requires form { IsWhole (known_bytes (V.view.outline pool.old).geometry (V.view.more pool.old) volume) request.now }
    requires room { 28 + request.now.len ≤ length out.old }
    ensures answer { Performs V.view.outline (PoolCall V.view) (Read volume (request.now.offset / 512) (request.now.len / 512)) (chunk_to request.now)
        pool.old (take result out.new) pool.new }
    ensures fits { result ≤ length out.new }
    ensures len { length out.new ≡ length out.old }
{
    let len = request.len as usize;
    match pool.read(volume, request.offset / 512, &mut out[28..28 + len]) {
        Ok(()) => put_read_chunk_head(out, request),
        Err(refusal) => put_refusal_chunk(out, refusal, request.cookie),
    }
}

/// A READ that is answered in chunks: a long one may tell holes.
fn read_in_chunks<V: Walked>(
    pool: &mut V,
    volume: DevId,
    request: &Request,
    out: &mut [u8],
) -> usize
    requires form { IsWhole (known_bytes (V.view.outline pool.old).geometry (V.view.more pool.old) volume) request.now }
    requires inside { request.now.offset + request.now.len < 18446744073709551616 }
    requires room { 65564 ≤ length out.old }
    requires long { 65536 ≤ request.now.len → 2097172 ≤ length out.old }
    ensures answer { ReadsInChunks V.view.outline (PoolCall V.view) volume request.now pool.old (take result out.new) pool.new }
    ensures fits { result ≤ length out.new }
    ensures len { length out.new ≡ length out.old }
{
    if may_have_holes(request) {
        read_long(pool, volume, request, out)
    } else {
        read_in_chunk(pool, volume, request, out)
    }
}

/// A READ of some sectors.
fn read<V: Walked>(
    pool: &mut V,
    volume: DevId,
    manner: Manner,
    request: &Request,
    out: &mut [u8],
) -> usize
    requires form { IsWhole (known_bytes (V.view.outline pool.old).geometry (V.view.more pool.old) volume) request.now }
    requires inside { request.now.offset + request.now.len < 18446744073709551616 }
    requires room { 65564 ≤ length out.old }
    requires long { 65536 ≤ request.now.len → 2097172 ≤ length out.old }
    ensures answer { AnswersRead V.view.outline (PoolCall V.view) volume manner request.now pool.old (take result out.new) pool.new }
    ensures fits { result ≤ length out.new }
    ensures len { length out.new ≡ length out.old }
{
    if manner.is_structured {
        read_in_chunks(pool, volume, request, out)
    } else {
        read_simply(pool, volume, request, out)
    }
}

/// The reply to a request that fails before the pool is asked.
fn put_error(out: &mut [u8], manner: Manner, request: &Request, error: NbdError) -> usize
    requires { 26 ≤ length out.old }
    ensures reply { take result out.new ≡ error_reply manner request.now error }
    ensures fits { result ≤ length out.new }
    ensures len { length out.new ≡ length out.old }
{
    if is_chunked(manner, request) {
        put_error_of(out, error, request.cookie)
    } else {
        put_reply(out, error.code(), request.cookie)
    }
}

/// The reply to a request of no bytes.
fn put_nothing(out: &mut [u8], manner: Manner, request: &Request) -> usize
    requires { 20 ≤ length out.old }
    ensures reply { take result out.new ≡ empty_reply manner request.now }
    ensures fits { result ≤ length out.new }
    ensures len { length out.new ≡ length out.old }
{
    if is_chunked(manner, request) {
        put_done_chunk(out, 0, request.cookie)
    } else {
        put_reply(out, 0, request.cookie)
    }
}

/// Returns whether what a request does must be durable before its reply: it has FUA, or its session
/// writes through.
pub(crate) fn wants_fua(manner: Manner, request: &Request) -> bool
    ensures { result ≡ wants_fua manner request.now }
{
    manner.writes_through || request.flags % 2 == 1
}

/// Whether each block that a WRITE_ZEROES touches is to have a data block afterwards.
pub(crate) fn wants_no_hole(request: &Request) -> bool
    ensures { result ≡ has_no_hole request.now }
{
    request.flags / 2 % 2 == 1
}

/// Whether a request is made without FUA, and kept then by a FLUSH of its own.
fn is_kept_apart(manner: Manner, request: &Request) -> bool
    ensures { result ≡ is_kept_apart manner request.now }
{
    manner.is_extended && wants_fua(manner, request)
}

/// The FLUSH that is left of such a request.
fn to_keep(request: Request) -> Request
    ensures { result ≡ to_keep request }
{
    Request {
        kind: COMMAND_FLUSH,
        len: 512,
        ..request
    }
}

/// Where a session stands that takes its next request.
fn listening(volume: DevId, size: u64, manner: Manner) -> Phase
    ensures { result ≡ Phase.Transmission volume size (Course.Listens manner) }
{
    Phase::Transmission {
        volume,
        size,
        course: Course::Listens { manner },
    }
}

/// A WRITE of some sectors that is kept apart: where it is done, a FLUSH is left of it, which answers it.
fn write_apart<V: Volumes>(
    pool: &mut V,
    volume: DevId,
    size: u64,
    manner: Manner,
    request: Request,
    payload: &[u8],
    out: &mut [u8],
) -> (Phase, usize)
    requires form { IsWhole (known_bytes (V.view.outline pool.old).geometry (V.view.more pool.old) volume) request }
    requires payload { length payload.now ≡ request.len }
    requires whole { IsWhole size request }
    requires some { 0 < request.len }
    requires room { 16 ≤ length out.old }
    ensures answer { Begins V.view.outline (PoolCall V.view) (Write volume (request.offset / 512) (sectors_of payload.now) false) volume size manner request
        pool.old (take result.1 out.new) result.0 pool.new }
    ensures sound { IsSound result.0 }
    ensures fits { result.1 ≤ length out.new }
    ensures len { length out.new ≡ length out.old }
{
    match pool.write(volume, request.offset / 512, payload, false) {
        Ok(()) => (at_work(volume, size, manner, to_keep(request)), 0),
        Err(refusal) => (
            listening(volume, size, manner),
            put_refusal(out, refusal, request.cookie),
        ),
    }
}

/// A WRITE of some sectors, in one call of the pool, whose volume has so many bytes.
fn write<V: Volumes>(
    pool: &mut V,
    volume: DevId,
    size: u64,
    manner: Manner,
    request: Request,
    payload: &[u8],
    out: &mut [u8],
) -> (Phase, usize)
    requires form { IsWhole (known_bytes (V.view.outline pool.old).geometry (V.view.more pool.old) volume) request }
    requires payload { length payload.now ≡ request.len }
    requires whole { IsWhole size request }
    requires some { 0 < request.len }
    requires room { 16 ≤ length out.old }
    ensures answer { Serves V.view.outline (PoolCall V.view) Verdict.Write volume size manner request payload.now
        pool.old (take result.1 out.new) result.0 pool.new }
    ensures sound { IsSound result.0 }
    ensures fits { result.1 ≤ length out.new }
    ensures len { length out.new ≡ length out.old }
{
    let same = Phase::Transmission {
        volume,
        size,
        course: Course::Listens { manner },
    };
    if is_kept_apart(manner, &request) {
        return write_apart(pool, volume, size, manner, request, payload, out);
    }
    let fua = wants_fua(manner, &request);
    match pool.write(volume, request.offset / 512, payload, fua) {
        Ok(()) => (same, put_reply(out, 0, request.cookie)),
        Err(refusal) => (same, put_refusal(out, refusal, request.cookie)),
    }
}

/// A TRIM of some sectors that is kept apart, as a WRITE is.
fn trim_apart<V: Volumes>(
    pool: &mut V,
    volume: DevId,
    size: u64,
    manner: Manner,
    request: Request,
    out: &mut [u8],
) -> (Phase, usize)
    requires form { IsWhole (known_bytes (V.view.outline pool.old).geometry (V.view.more pool.old) volume) request }
    requires whole { IsWhole size request }
    requires some { 0 < request.len }
    requires room { 16 ≤ length out.old }
    ensures answer { Begins V.view.outline (PoolCall V.view) (Trim volume (request.offset / 512) (request.len / 512) false) volume size manner request
        pool.old (take result.1 out.new) result.0 pool.new }
    ensures sound { IsSound result.0 }
    ensures fits { result.1 ≤ length out.new }
    ensures len { length out.new ≡ length out.old }
{
    let count = (request.len / 512) as u64;
    match pool.trim(volume, request.offset / 512, count, false) {
        Ok(()) => (at_work(volume, size, manner, to_keep(request)), 0),
        Err(refusal) => (
            listening(volume, size, manner),
            put_refusal(out, refusal, request.cookie),
        ),
    }
}

/// A TRIM of some sectors, whose volume has so many bytes.
fn trim<V: Volumes>(
    pool: &mut V,
    volume: DevId,
    size: u64,
    manner: Manner,
    request: Request,
    out: &mut [u8],
) -> (Phase, usize)
    requires form { IsWhole (known_bytes (V.view.outline pool.old).geometry (V.view.more pool.old) volume) request }
    requires whole { IsWhole size request }
    requires some { 0 < request.len }
    requires room { 16 ≤ length out.old }
    ensures answer { Changes V.view.outline (PoolCall V.view) (Trim volume (request.offset / 512) (request.len / 512) false)
        (Trim volume (request.offset / 512) (request.len / 512) (wants_fua manner request)) volume size manner request pool.old (take result.1 out.new) result.0 pool.new }
    ensures sound { IsSound result.0 }
    ensures fits { result.1 ≤ length out.new }
    ensures len { length out.new ≡ length out.old }
{
    let same = Phase::Transmission {
        volume,
        size,
        course: Course::Listens { manner },
    };
    if is_kept_apart(manner, &request) {
        return trim_apart(pool, volume, size, manner, request, out);
    }
    let count = (request.len / 512) as u64;
    let fua = wants_fua(manner, &request);
    match pool.trim(volume, request.offset / 512, count, fua) {
        Ok(()) => (same, put_reply(out, 0, request.cookie)),
        Err(refusal) => (same, put_refusal(out, refusal, request.cookie)),
    }
}

/// A WRITE_ZEROES of some sectors that is kept apart, as a WRITE is.
fn write_zeroes_apart<V: Volumes>(
    pool: &mut V,
    volume: DevId,
    size: u64,
    manner: Manner,
    request: Request,
    out: &mut [u8],
) -> (Phase, usize)
    requires form { IsWhole (known_bytes (V.view.outline pool.old).geometry (V.view.more pool.old) volume) request }
    requires whole { IsWhole size request }
    requires some { 0 < request.len }
    requires room { 16 ≤ length out.old }
    ensures answer { Begins V.view.outline (PoolCall V.view) (WriteZeroes volume (request.offset / 512) (request.len / 512) (has_no_hole request) false) volume size manner request
        pool.old (take result.1 out.new) result.0 pool.new }
    ensures sound { IsSound result.0 }
    ensures fits { result.1 ≤ length out.new }
    ensures len { length out.new ≡ length out.old }
{
    let count = (request.len / 512) as u64;
    let no_hole = wants_no_hole(&request);
    match pool.write_zeroes(volume, request.offset / 512, count, no_hole, false) {
        Ok(()) => (at_work(volume, size, manner, to_keep(request)), 0),
        Err(refusal) => (
            listening(volume, size, manner),
            put_refusal(out, refusal, request.cookie),
        ),
    }
}

/// A WRITE_ZEROES of some sectors, whose volume has so many bytes.
fn write_zeroes<V: Volumes>(
    pool: &mut V,
    volume: DevId,
    size: u64,
    manner: Manner,
    request: Request,
    out: &mut [u8],
) -> (Phase, usize)
    requires form { IsWhole (known_bytes (V.view.outline pool.old).geometry (V.view.more pool.old) volume) request }
    requires whole { IsWhole size request }
    requires some { 0 < request.len }
    requires room { 16 ≤ length out.old }
    ensures answer { Changes V.view.outline (PoolCall V.view) (WriteZeroes volume (request.offset / 512) (request.len / 512) (has_no_hole request) false)
        (WriteZeroes volume (request.offset / 512) (request.len / 512) (has_no_hole request) (wants_fua manner request)) volume size manner request
        pool.old (take result.1 out.new) result.0 pool.new }
    ensures sound { IsSound result.0 }
    ensures fits { result.1 ≤ length out.new }
    ensures len { length out.new ≡ length out.old }
{
    let same = Phase::Transmission {
        volume,
        size,
        course: Course::Listens { manner },
    };
    if is_kept_apart(manner, &request) {
        return write_zeroes_apart(pool, volume, size, manner, request, out);
    }
    let count = (request.len / 512) as u64;
    let no_hole = wants_no_hole(&request);
    let fua = wants_fua(manner, &request);
    match pool.write_zeroes(volume, request.offset / 512, count, no_hole, fua) {
        Ok(()) => (same, put_reply(out, 0, request.cookie)),
        Err(refusal) => (same, put_refusal(out, refusal, request.cookie)),
    }
}

/// A FLUSH.
fn flush<V: Volumes>(pool: &mut V, cookie: u64, out: &mut [u8]) -> usize
    requires { 16 ≤ length out.old }
    ensures answer { Performs V.view.outline (PoolCall V.view) Flush (reply_to cookie) pool.old (take result out.new) pool.new }
    ensures fits { result ≤ length out.new }
    ensures len { length out.new ≡ length out.old }
{
    match pool.flush() {
        Ok(()) => put_reply(out, 0, cookie),
        Err(refusal) => put_refusal(out, refusal, cookie),
    }
}

/// Lets a volume go that is held, and deletes it where it is a clone.
fn part_with<V: Cloned>(pool: &mut V, volume: DevId, course: Course)
    requires { 0 < hold_count (V.view.outline pool.old).holds volume }
    ensures { MatchBool (manner_in course).is_clone (GivesUp V.view.outline (PoolCall V.view) volume pool.old pool.new)
        (PoolCall V.view pool.old (LetGo volume) Done pool.new) }
{
    if is_of_clone(course) {
        give_up(pool, volume);
        return;
    }
    pool.let_go(volume);
}

/// The end of a session, which lets the older volume go that it holds, and then its own, and deletes that where it is a clone.
pub fn end<V: Cloned>(phase: Phase, pool: &mut V) -> Phase
    requires { IsReady phase (V.view.outline pool.old) (V.view.more pool.old) }
    ensures lets_go { LetsGo V.view.outline (PoolCall V.view) phase pool.old pool.new }
    ensures ended { result ≡ Phase.Ended }
{
    let_older_go(pool, older_in(&phase));
    let_own_go(phase, pool);
    Phase::Ended
}

/// Lets the volume go that a session serves, and deletes it where it is a clone.
fn let_own_go<V: Cloned>(phase: Phase, pool: &mut V)
    requires { (volume : ℕ) → own_in phase ≡ volume ∷ [] → 0 < hold_count (V.view.outline pool.old).holds volume }
    ensures { LetsOwnGo V.view.outline (PoolCall V.view) phase pool.old pool.new }
{
    if let Phase::Transmission { volume, course, .. } = phase {
        part_with(pool, volume, course);
    }
}

/// Where a session stands that has so much left of a request.
pub(crate) fn at_work(volume: DevId, size: u64, manner: Manner, rest: Request) -> Phase
    ensures { result ≡ Phase.Transmission volume size (Course.Works manner rest) }
{
    Phase::Transmission {
        volume,
        size,
        course: Course::Works { manner, rest },
    }
}

/// The answer to one request of a volume of so many bytes.
fn serve<V: Cloned>(
    pool: &mut V,
    volume: DevId,
    size: u64,
    manner: Manner,
    request: Request,
    payload: &[u8],
    out: &mut [u8],
) -> (Phase, usize)
    requires ready { IsReady (Phase.Transmission volume size (Course.Listens manner)) (V.view.outline pool.old) (V.view.more pool.old) }
    requires payload { length payload.now ≡ payload_len request }
    requires room { 65564 ≤ length out.old }
    requires long { request.kind ≡ COMMAND_READ → 65536 ≤ request.len → 2097172 ≤ length out.old }
    ensures answer { Serves V.view.outline (PoolCall V.view) (verdict_in manner size request) volume size manner request payload.now
        pool.old (take result.1 out.new) result.0 pool.new }
    ensures sound { IsSound result.0 }
    ensures fits { result.1 ≤ length out.new }
    ensures len { length out.new ≡ length out.old }
{
    let same = Phase::Transmission {
        volume,
        size,
        course: Course::Listens { manner },
    };
    match judge_in(manner, size, &request) {
        Verdict::Disconnect => (end(same, pool), 0),
        Verdict::Refuse(error) => (same, put_error(out, manner, &request, error)),
        Verdict::Nothing => (same, put_nothing(out, manner, &request)),
        Verdict::Read => (same, read(pool, volume, manner, &request, out)),
        Verdict::Write => write(pool, volume, size, manner, request, payload, out),
        Verdict::Trim => trim(pool, volume, size, manner, request, out),
        Verdict::WriteZeroes => write_zeroes(pool, volume, size, manner, request, out),
        Verdict::Flush => (same, flush(pool, request.cookie, out)),
        Verdict::Long => (at_work(volume, size, manner, request), 0),
        Verdict::Status => (same, describe(pool, volume, manner, &request, out)),
    }
}

/// Where a session stands behind the client flags.
fn agree(profile: Profile, no_zeroes: bool) -> Phase
    ensures { result ≡ Phase.Options (terms_of profile no_zeroes) }
{
    Phase::Options {
        terms: Terms {
            no_zeroes,
            profile,
            is_structured: false,
            context: ContextOf::Nothing,
            tells_blocks: false,
            since: NO_VOLUME,
        },
    }
}

/// The answer to one frame, which stands at the front of `out`, and the next phase. None if `out`
/// has no room for it: then nothing was done.
pub fn answer<V: Cloned>(
    phase: Phase,
    frame: Frame<'_>,
    out: &mut [u8],
    pool: &mut V,
) -> Option<(Phase, usize)>
    requires ready { IsReady phase (V.view.outline pool.old) (V.view.more pool.old) }
    requires frame { IsOf phase (message_of frame) }
    requires room { SHORT_ANSWER ≤ length out.old }
    ensures answer { IfSome result (λ a. Answers V.view.outline (PoolCall V.view) phase (message_of frame.entry) pool.old (take a.1 out.new) a.0 pool.new) }
    ensures sound { IfSome result (λ a. IsSound a.0) }
    ensures fits { IfSome result (λ a. a.1 ≤ length out.new) }
    ensures none { result ≡ None → (pool.new ≡ pool.old) × (length out.old < MAX_ANSWER) }
    ensures len { length out.new ≡ length out.old }
{
    match frame {
        Frame::Malformed => Some((end(phase, pool), 0)),
        Frame::ClientFlags { no_zeroes } => match phase {
            Phase::Flags { profile } => Some((agree(profile, no_zeroes), 0)),
            _ => unreachable!(),
        },
        Frame::ClientOption { option, payload } => match phase {
            Phase::Options { terms } => {
                if !has_room_for_option(option, out.len()) {
                    return None;
                }
                Some(answer_option(terms, option, payload, out, pool))
            }
            _ => unreachable!(),
        },
        Frame::Command { request, payload } => match phase {
            Phase::Transmission {
                volume,
                size,
                course,
            } => match course {
                Course::Listens { manner } => {
                    if !has_room(&request, out.len()) {
                        return None;
                    }
                    Some(serve(pool, volume, size, manner, request, payload, out))
                }
                Course::Works { .. } => unreachable!(),
            },
            _ => unreachable!(),
        },
    }
}
