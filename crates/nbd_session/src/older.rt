//! The older volume that a session holds, so that none of its number is made anew while its client compares with it.

ghost use Rattle.std.specs.Prelude.{◌≡◌, ◌≤◌, ◌<◌, ◌++◌, ℕ, List, length, nat_lt, take, MatchBool};
ghost use Rattle.tp_model.specs.Pool.{hold_count, hold_total};
ghost use Rattle.tp_model.specs.Clauses.{PoolCall};
ghost use Rattle.nbd_wire.specs.declared.TheConstants.{OPTION_LIST};
ghost use Rattle.nbd_session.specs.Buffers.{IsSound};
ghost use Rattle.nbd_session.specs.Clauses.{HoldsBeside};
ghost use Rattle.nbd_session.specs.Session.{AnswersOption, HoldsOlder, LetsOlderGo, Settles, Tells, Trades, ids_of, older_in, outcome, own_in};

use crate::options::choose;
use crate::phase::{NO_VOLUME, Phase, Terms, older_in};
use tp_model::{Cloned, DevId, Volumes};

/// Lets an older volume go, where the number is an id.
pub(crate) fn let_older_go<V: Volumes>(pool: &mut V, number: u32)
    requires { number < 16777216 → 0 < hold_count (V.view.outline pool.old).holds number }
    ensures { LetsOlderGo V.view.outline (PoolCall V.view) number pool.old pool.new }
{
    if number < NO_VOLUME {
        pool.let_go(DevId::new(number));
    }
}

/// Holds an older volume, where the number is an id, before an option is answered that leaves the session in this phase and sends so many bytes. Where that is refused
/// the session ends, and nothing is sent.
fn hold_older<V: Volumes>(pool: &mut V, number: u32, next: Phase, sent: usize) -> (Phase, usize)
    requires { hold_total (V.view.outline pool.old).holds < 128 }
    ensures held { (bytes : List ℕ) → MatchBool (nat_lt number 16777216)
        (HoldsOlder V.view.outline (PoolCall V.view) number (outcome (take sent bytes) next) pool.old (take result.1 bytes) result.0 pool.new)
        (Tells V.view.outline (PoolCall V.view) (outcome (take sent bytes) next) pool.old (take result.1 bytes) result.0 pool.new) }
    ensures fewer { result.1 ≤ sent }
{
    if number >= NO_VOLUME {
        return (next, sent);
    }
    match pool.hold(DevId::new(number)) {
        Ok(()) => (next, sent),
        Err(_) => (Phase::Ended, 0),
    }
}

/// Holds one older volume in the place of another, where the numbers are ids.
fn trade<V: Volumes>(
    pool: &mut V,
    number: u32,
    other: u32,
    next: Phase,
    sent: usize,
) -> (Phase, usize)
    requires { HoldsBeside (own_in next ++ ids_of number) (V.view.outline pool.old).holds }
    ensures traded { (bytes : List ℕ) → Trades V.view.outline (PoolCall V.view) number other (outcome (take sent bytes) next) pool.old (take result.1 bytes) result.0 pool.new }
    ensures fewer { result.1 ≤ sent }
{
    let_older_go(pool, number);
    hold_older(pool, other, next, sent)
}

/// Holds the older volume that the phase behind an option names, in the place of the one that was held before it. So many bytes are sent for that option; where the
/// volume cannot be held the session ends, and nothing is sent.
fn settle<V: Volumes>(pool: &mut V, number: u32, next: Phase, sent: usize) -> (Phase, usize)
    requires { HoldsBeside (own_in next ++ ids_of number) (V.view.outline pool.old).holds }
    ensures settles { (bytes : List ℕ) → Settles V.view.outline (PoolCall V.view) number (outcome (take sent bytes) next) pool.old (take result.1 bytes) result.0 pool.new }
    ensures fewer { result.1 ≤ sent }
{
    let other = older_in(&next);
    if number == other {
        return (next, sent);
    }
    trade(pool, number, other, next, sent)
}

/// The answer to one option, behind which the session holds the older volume that its phase names.
pub(crate) fn answer_option<V: Cloned>(
    terms: Terms,
    option: u32,
    payload: &[u8],
    out: &mut [u8],
    pool: &mut V,
) -> (Phase, usize)
    requires ready { HoldsBeside (ids_of terms.since) (V.view.outline pool.old).holds }
    requires room { 65564 ≤ length out.old }
    requires long { option ≡ OPTION_LIST → 2097172 ≤ length out.old }
    ensures answer { AnswersOption V.view.outline (PoolCall V.view) terms option payload.now pool.old (take result.1 out.new) result.0 pool.new }
    ensures sound { IsSound result.0 }
    ensures fits { result.1 ≤ length out.new }
    ensures len { length out.new ≡ length out.old }
{
    let (next, sent) = choose(terms, option, payload, out, pool);
    settle(pool, terms.since, next, sent)
}
