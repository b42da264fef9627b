//! A clone of a volume: a snapshot that is made for one session, and deleted where that ends.

ghost use Rattle.std.specs.Prelude.{◌≡◌, ◌≤◌, ◌<◌, ℕ, length, take, MatchResult};
ghost use Rattle.tp_model.specs.Pool.{hold_count, hold_total};
ghost use Rattle.tp_model.specs.Calls.{Done, Refused};
ghost use Rattle.tp_model.specs.Clauses.{PoolCall};
ghost use Rattle.nbd_session.specs.Looking.{MakesClone, TakesClone, TakesHoldOfClone, Tries};
ghost use Rattle.nbd_session.specs.Session.{AsksFor, Clones, GivesUp, IsOutcome, Snaps, begun_clone, clone_flags, clone_manner, export_name, go, info, is_of_failure, is_of_none, is_taken, of_clone, set_context, uncloned};

use crate::options::{
    answer_error, find, flags_of, in_context, is_told_of_clone, manner_by, put_contexts,
    put_info_reply, size_of, without_context,
};
use crate::phase::{ContextOf, Course, FIRST_CLONE, MOST_CLONES, Manner, Phase, Terms};
use nbd_wire::{
    ALLOCATION_CONTEXT, OPTION_GO, OPTION_INFO, OPTION_SET_META_CONTEXT, ReplyType, SINCE_CONTEXT,
    put_export_reply,
};
use tp_model::{Cloned, DevId, Geometry, Refusal, Volumes};

/// How many ids are tried before the last one.
const BEFORE_LAST: u32 = MOST_CLONES - 1;

/// The transmission flag SEND_DF.
const SEND_DF: u16 = 0x80;

/// The transmission flags of a clone: without CAN_MULTI_CONN, since another connection would have another clone. Where READs are answered in chunks, with SEND_DF.
fn clone_flags(terms: Terms, flags: u16) -> u16
    requires { flags < 128 }
    ensures { result ≡ clone_flags terms flags }
{
    let send_df = if terms.is_structured { SEND_DF } else { 0 };
    send_df + flags
}

/// How requests of a clone are taken and answered once transmission begins.
fn clone_manner(terms: Terms, origin: DevId) -> Manner
    ensures { result ≡ clone_manner terms origin }
{
    manner_by(terms, is_told_of_clone(terms, origin.number()), true)
}

/// Where a session stands that begins with transmission of a clone.
fn begin_clone(terms: Terms, origin: DevId, id: DevId, size: u64) -> Phase
    ensures { result ≡ begun_clone terms origin id size }
{
    Phase::Transmission {
        volume: id,
        size,
        course: Course::Listens {
            manner: clone_manner(terms, origin),
        },
    }
}

/// Whether a snapshot was refused since a volume has its id.
fn is_taken(refusal: Refusal) -> bool
    ensures { result ≡ is_taken (Refused refusal) }
{
    matches!(refusal, Refusal::Exists)
}

/// Asks for a snapshot of a volume under the id that comes so many behind the first one of clones: that id, where it was made.
fn try_snapshot<V: Cloned>(pool: &mut V, origin: DevId, passed: u32) -> Result<DevId, Refusal>
    requires { passed < 64 }
    ensures tries { Tries V.view.outline (PoolCall V.view) origin passed result pool.old pool.new }
    ensures holds { (V.view.outline pool.new).holds ≡ (V.view.outline pool.old).holds }
{
    let id = DevId::new(FIRST_CLONE + passed);
    match pool.create_snap(id, origin) {
        Ok(()) => Ok(id),
        Err(refusal) => Err(refusal),
    }
}

/// Makes a snapshot of a volume under the least id from 8388608 on that no volume has, of which 64 are tried: that id, where it was made.
fn snapshot<V: Cloned>(pool: &mut V, origin: DevId) -> Result<DevId, Refusal>
    ensures snaps { MatchResult result
        (λ id. Snaps V.view.outline (PoolCall V.view) origin id Done pool.old pool.new)
        (λ reason. (id : ℕ) × Snaps V.view.outline (PoolCall V.view) origin id (Refused reason) pool.old pool.new) }
    ensures holds { (V.view.outline pool.new).holds ≡ (V.view.outline pool.old).holds }
{
    let mut passed = 0;
    while passed < BEFORE_LAST {
        match try_snapshot(pool, origin, passed) {
            Ok(id) => return Ok(id),
            Err(refusal) => {
                if !is_taken(refusal) {
                    return Err(refusal);
                }
                passed += 1;
            }
        }
    }
    try_snapshot(pool, origin, BEFORE_LAST)
}

/// Lets a clone go, and deletes it. Where that is refused it stays.
pub(crate) fn give_up<V: Cloned>(pool: &mut V, id: DevId)
    requires { 0 < hold_count (V.view.outline pool.old).holds id }
    ensures { GivesUp V.view.outline (PoolCall V.view) id pool.old pool.new }
{
    pool.let_go(id);
    let _ = pool.delete(id);
}

/// How many bytes a clone has that is held. Where that is refused it is given up.
fn take_clone<V: Cloned>(pool: &mut V, geometry: &Geometry, id: DevId) -> Result<u64, Refusal>
    requires held { 0 < hold_count (V.view.outline pool.old).holds id }
    ensures { TakesClone V.view.outline (PoolCall V.view) geometry.now id result pool.old pool.new }
{
    match size_of(pool, geometry, id) {
        Ok(size) => Ok(size),
        Err(refusal) => {
            give_up(pool, id);
            Err(refusal)
        }
    }
}

/// How many bytes a clone has, which is held from now on. Where that is refused the pool is asked to delete it.
fn hold_clone<V: Cloned>(pool: &mut V, geometry: &Geometry, id: DevId) -> Result<u64, Refusal>
    requires ready { hold_total (V.view.outline pool.old).holds < 128 }
    ensures { TakesHoldOfClone V.view.outline (PoolCall V.view) geometry.now id result pool.old pool.new }
{
    match pool.hold(id) {
        Ok(()) => take_clone(pool, geometry, id),
        Err(refusal) => {
            let _ = pool.delete(id);
            Err(refusal)
        }
    }
}

/// What became of a clone that was asked for.
#[derive(Clone, Copy, Debug)]
pub enum Made {
    /// It was made, and is held: its id, and its size in bytes.
    Held { id: DevId, size: u64 },
    /// None was made.
    NotMade(Refusal),
    /// It was made, but it could not be held, or its size was refused: it was given up.
    GivenUp,
}

/// Makes a clone of a volume, which is held from now on.
fn make_clone<V: Cloned>(pool: &mut V, origin: DevId) -> Made
    requires ready { hold_total (V.view.outline pool.old).holds < 128 }
    ensures { MakesClone V.view.outline (PoolCall V.view) origin result pool.old pool.new }
{
    let geometry = pool.geometry();
    match snapshot(pool, origin) {
        Ok(id) => match hold_clone(pool, &geometry, id) {
            Ok(size) => Made::Held { id, size },
            Err(_) => Made::GivenUp,
        },
        Err(refusal) => Made::NotMade(refusal),
    }
}

/// Whether no clone was made since there is no such volume.
fn is_of_none(refusal: Refusal) -> bool
    ensures { result ≡ is_of_none refusal }
{
    matches!(refusal, Refusal::NoSuchDevice)
}

/// Whether none was made since the pool or its disk has failed.
fn is_of_failure(refusal: Refusal) -> bool
    ensures { result ≡ is_of_failure refusal }
{
    matches!(refusal, Refusal::Failed | Refusal::Fault | Refusal::Damaged)
}

/// The answer to GO of a clone that was not made.
fn refuse_clone(terms: Terms, refusal: Refusal, out: &mut [u8]) -> (Phase, usize)
    requires { 20 ≤ length out.old }
    ensures refused { IsOutcome (uncloned (go terms) refusal) (take result.1 out.new) result.0 }
    ensures fits { result.1 ≤ length out.new }
    ensures len { length out.new ≡ length out.old }
{
    if is_of_none(refusal) {
        return answer_error(terms, OPTION_GO, ReplyType::Unknown, out);
    }
    if is_of_failure(refusal) {
        return (Phase::Ended, 0);
    }
    answer_error(terms, OPTION_GO, ReplyType::Policy, out)
}

/// GO of a clone of a volume, which is made, and held from now on.
pub(crate) fn enter_clone<V: Cloned>(
    terms: Terms,
    origin: DevId,
    out: &mut [u8],
    pool: &mut V,
) -> (Phase, usize)
    requires ready { hold_total (V.view.outline pool.old).holds < 128 }
    requires room { 86 ≤ length out.old }
    ensures answer { Clones V.view.outline (PoolCall V.view) (go terms) origin pool.old (take result.1 out.new) result.0 pool.new }
    ensures fits { result.1 ≤ length out.new }
    ensures len { length out.new ≡ length out.old }
{
    let flags = clone_flags(terms, flags_of(pool.mode()));
    match make_clone(pool, origin) {
        Made::Held { id, size } => (
            begin_clone(terms, origin, id, size),
            put_info_reply(out, OPTION_GO, size, flags),
        ),
        Made::NotMade(refusal) => refuse_clone(terms, refusal, out),
        Made::GivenUp => (Phase::Ended, 0),
    }
}

/// EXPORT_NAME of a clone of a volume, which is made, and held from now on.
pub(crate) fn export_clone<V: Cloned>(
    terms: Terms,
    origin: DevId,
    out: &mut [u8],
    pool: &mut V,
) -> (Phase, usize)
    requires ready { hold_total (V.view.outline pool.old).holds < 128 }
    requires room { 134 ≤ length out.old }
    ensures answer { Clones V.view.outline (PoolCall V.view) (export_name terms) origin pool.old (take result.1 out.new) result.0 pool.new }
    ensures fits { result.1 ≤ length out.new }
    ensures len { length out.new ≡ length out.old }
{
    let flags = clone_flags(terms, flags_of(pool.mode()));
    match make_clone(pool, origin) {
        Made::Held { id, size } => {
            let sent = put_export_reply(out, 0, size, flags, terms.no_zeroes);
            (begin_clone(terms, origin, id, size), sent)
        }
        Made::NotMade(_) => (Phase::Ended, 0),
        Made::GivenUp => (Phase::Ended, 0),
    }
}

/// INFO of a clone of a volume: none is made.
pub(crate) fn tell_clone<V: Volumes>(
    terms: Terms,
    origin: DevId,
    out: &mut [u8],
    pool: &mut V,
) -> (Phase, usize)
    requires room { 86 ≤ length out.old }
    ensures answer { AsksFor V.view.outline (PoolCall V.view) (of_clone (info terms) origin) origin pool.old (take result.1 out.new) result.0 pool.new }
    ensures fits { result.1 ≤ length out.new }
    ensures len { length out.new ≡ length out.old }
{
    let flags = clone_flags(terms, flags_of(pool.mode()));
    match find(pool, origin) {
        Ok(Some(size)) => (
            Phase::Options { terms },
            put_info_reply(out, OPTION_INFO, size, flags),
        ),
        Ok(None) => answer_error(terms, OPTION_INFO, ReplyType::Unknown, out),
        Err(_) => (Phase::Ended, 0),
    }
}

/// SET_META_CONTEXT of the clones of a volume: none is made.
pub(crate) fn set_clone<V: Volumes>(
    terms: Terms,
    origin: DevId,
    is_asked: bool,
    since: u32,
    out: &mut [u8],
    pool: &mut V,
) -> (Phase, usize)
    requires room { 106 ≤ length out.old }
    ensures answer { AsksFor V.view.outline (PoolCall V.view) (of_clone (set_context terms is_asked since) origin) origin pool.old (take result.1 out.new) result.0 pool.new }
    ensures fits { result.1 ≤ length out.new }
    ensures len { length out.new ≡ length out.old }
{
    match find(pool, origin) {
        Ok(Some(_)) => {
            let terms = in_context(terms, ContextOf::Clones(origin.number()), is_asked, since);
            let sent = put_contexts(
                out,
                OPTION_SET_META_CONTEXT,
                ALLOCATION_CONTEXT,
                SINCE_CONTEXT,
                is_asked,
                since,
            );
            (Phase::Options { terms }, sent)
        }
        Ok(None) => {
            let terms = without_context(terms);
            answer_error(terms, OPTION_SET_META_CONTEXT, ReplyType::Unknown, out)
        }
        Err(_) => (Phase::Ended, 0),
    }
}
