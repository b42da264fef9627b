//! The answer to LIST.

ghost use Rattle.std.specs.Prelude.{◌≡◌, ◌≤◌, ◌<◌, ◌+◌, ◌++◌, ◌⊎◌, [], MatchOption, MatchResult, Some, length, take};
ghost use Rattle.tp_model.specs.Calls.{Found, NextId, Refused};
ghost use Rattle.tp_model.specs.Clauses.{PoolCall};
ghost use Rattle.nbd_wire.specs.Replies.{option_reply};
ghost use Rattle.nbd_wire.specs.declared.TheConstants.{OPTION_LIST};
ghost use Rattle.nbd_wire.specs.declared.writing.ReplyType.TheVariants.{Acknowledged};
ghost use Rattle.nbd_session.specs.Session.{IsLast, Lists, NamesAll, NamesNone, limit_of, name_reply};

use crate::name::below;
use crate::options::{answer_error, has_failed};
use crate::phase::{Phase, Profile, Terms, limit_of};
use itoa::Buffer;
use nbd_wire::{OPTION_LIST, ReplyType, put_option_reply_head, put_server_reply};
use tp_model::{DevId, Refusal, Volumes};

/// As many volumes as a pool may have.
const MOST_VOLUMES: u32 = 65536;

/// The reply that names a volume, at a place.
fn put_name(out: &mut [u8], at: usize, volume: DevId) -> usize
    requires { at + 32 ≤ length out.old }
    ensures reply { take result out.new ≡ take at out.old ++ name_reply volume }
    ensures end { result ≤ at + 32 }
    ensures len { length out.new ≡ length out.old }
{
    let mut digits = Buffer::new();
    let name = digits.format(volume.number()).as_bytes();
    put_server_reply(out, at, name)
}

/// The reply behind the last name, at a place.
fn put_end(out: &mut [u8], at: usize) -> usize
    requires { at + 20 ≤ length out.old }
    ensures reply { take result out.new ≡ take at out.old ++ option_reply OPTION_LIST Acknowledged [] }
    ensures fits { result ≤ length out.new }
    ensures len { length out.new ≡ length out.old }
{
    put_option_reply_head(out, at, OPTION_LIST, ReplyType::Acknowledged, 0)
}

/// The least id of a volume that is `from` or more and that a name may mean, if there is one.
fn next_from<V: Volumes>(
    pool: &mut V,
    profile: Profile,
    from: u32,
) -> Result<Option<DevId>, Refusal>
    ensures { MatchResult result
        (λ found. MatchOption found (IsLast V.view.outline (PoolCall V.view) (limit_of profile) from pool.old pool.new)
        (λ id. (id < limit_of profile) × PoolCall V.view pool.old (NextId from) (Found (Some id)) pool.new))
        (λ reason. PoolCall V.view pool.old (NextId from) (Refused reason) pool.new) }
{
    let limit = limit_of(profile);
    if from >= limit {
        return Ok(None);
    }
    match pool.next_id(DevId::new(from)) {
        Ok(None) => Ok(None),
        Ok(Some(volume)) => Ok(below(limit, volume)),
        Err(refusal) => Err(refusal),
    }
}

/// The names of all volumes that a name may mean in one answer. Where the pool refuses to look for one, or finds more than it may have, the session ends.
fn name_all<V: Volumes>(terms: Terms, out: &mut [u8], pool: &mut V) -> (Phase, usize)
    requires room { 2097172 ≤ length out.old }
    ensures answer { NamesAll V.view.outline (PoolCall V.view) terms pool.old (take result.1 out.new) result.0 pool.new
        ⊎ NamesNone V.view.outline (PoolCall V.view) pool.old (take result.1 out.new) result.0 pool.new }
    ensures fits { result.1 ≤ length out.new }
    ensures len { length out.new ≡ length out.old }
{
    let mut at = 0;
    let mut from = 0;
    let mut named = 0;
    while named < MOST_VOLUMES {
        match next_from(pool, terms.profile, from) {
            Ok(Some(volume)) => {
                at = put_name(out, at, volume);
                from = volume.number() + 1;
                named += 1;
            }
            Ok(None) => return (Phase::Options { terms }, put_end(out, at)),
            Err(_) => return (Phase::Ended, 0),
        }
    }
    match next_from(pool, terms.profile, from) {
        Ok(None) => (Phase::Options { terms }, put_end(out, at)),
        Ok(Some(_)) => (Phase::Ended, 0),
        Err(_) => (Phase::Ended, 0),
    }
}

/// The answer to LIST.
pub fn list<V: Volumes>(
    terms: Terms,
    payload: &[u8],
    out: &mut [u8],
    pool: &mut V,
) -> (Phase, usize)
    requires room { 2097172 ≤ length out.old }
    ensures answer { Lists V.view.outline (PoolCall V.view) terms payload.now pool.old (take result.1 out.new) result.0 pool.new }
    ensures fits { result.1 ≤ length out.new }
    ensures len { length out.new ≡ length out.old }
{
    if has_failed(pool.mode()) {
        return (Phase::Ended, 0);
    }
    let len = payload.len();
    if len > 0 {
        return answer_error(terms, OPTION_LIST, ReplyType::Invalid, out);
    }
    name_all(terms, out, pool)
}
