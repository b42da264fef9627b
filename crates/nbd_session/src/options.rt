//! The answer to one option.

ghost use Rattle.std.specs.Prelude.{◌≡◌, ◌≤◌, ◌<◌, ◌+◌, ◌++◌, [], false, true, if◌then◌else◌, length, take};
ghost use Rattle.tp_model.specs.Pool.{hold_count, hold_total};
ghost use Rattle.tp_model.specs.Calls.{is_failed, is_read_only};
ghost use Rattle.tp_model.specs.Clauses.{PoolCall};
ghost use Rattle.nbd_wire.specs.declared.TheConstants.{OPTION_LIST};
ghost use Rattle.nbd_wire.specs.declared.writing.ReplyType.TheVariants.{Context};
ghost use Rattle.nbd_wire.specs.Contexts.{asks_for, context_data, lists, since_name};
ghost use Rattle.nbd_wire.specs.Replies.{option_reply};
ghost use Rattle.nbd_session.specs.Requests.{bytes_of_blocks};
ghost use Rattle.nbd_session.specs.Looking.{IsTold, Learns, LooksUp, Sought, TakesHold, TakesOn};
ghost use Rattle.nbd_session.specs.Session.{AsksFor, Chooses, Exports, Extends, Informs, IsOutcome, LooksFor, Queries, SeeksFor, allocation_reply, begun, context_reply, export_name, flags_in, go, in_context, info, info_reply, is_of_clones, is_of_volume, is_told_of, is_told_of_clone, limit_of, list_context, manner_by, manner_of, option_error, set_context, since_reply, structures, without_context};

use crate::clones::{enter_clone, export_clone, set_clone, tell_clone};
use crate::listing::list;
use crate::name::{meant, named_in, origin_in};
use crate::phase::{
    ContextOf, Course, Manner, NO_VOLUME, Phase, Profile, Terms, is_extended, writes_through,
};
use itoa::Buffer;
use nbd_wire::{
    ALLOCATION_CONTEXT, OPTION_ABORT, OPTION_EXPORT_NAME, OPTION_GO, OPTION_INFO, OPTION_LIST,
    OPTION_LIST_META_CONTEXT, OPTION_SET_META_CONTEXT, OPTION_STRUCTURED_REPLY, ReplyType,
    SINCE_CONTEXT, info_name, put_block_size_info, put_context_reply, put_export_info,
    put_export_reply, put_option_reply_head, put_since_reply, read_query,
};
use tp_model::{Cloned, DevId, Geometry, Mode, Refusal, Volumes};

/// The transmission flags HAS_FLAGS, SEND_FLUSH, SEND_FUA, SEND_TRIM and SEND_WRITE_ZEROES.
const FLAGS: u16 = 0x6d;

/// The same, with READ_ONLY.
const READ_ONLY_FLAGS: u16 = 0x6f;

/// The transmission flag CAN_MULTI_CONN.
const MULTI_CONN: u16 = 0x100;

/// The transmission flag SEND_DF.
const SEND_DF: u16 = 0x80;

/// An option reply without data, at the front.
fn put_option_reply(out: &mut [u8], option: u32, reply: ReplyType) -> usize
    requires { 20 ≤ length out.old }
    ensures reply { take result out.new ≡ option_reply option reply [] }
    ensures fits { result ≤ length out.new }
    ensures len { length out.new ≡ length out.old }
{
    put_option_reply_head(out, 0, option, reply, 0)
}

/// An error in answer to an option, after which others may follow.
pub(crate) fn answer_error(
    terms: Terms,
    option: u32,
    reply: ReplyType,
    out: &mut [u8],
) -> (Phase, usize)
    requires { 20 ≤ length out.old }
    ensures refused { IsOutcome (option_error option reply terms) (take result.1 out.new) result.0 }
    ensures fits { result.1 ≤ length out.new }
    ensures len { length out.new ≡ length out.old }
{
    let sent = put_option_reply(out, option, reply);
    (Phase::Options { terms }, sent)
}

/// The answer to an option that tells of a volume, at the front: the size in bytes, the flags, the block sizes, and ACK.
#[tactic(auto, unfolding(crate::specs::Session::info_reply))]
pub(crate) fn put_info_reply(out: &mut [u8], option: u32, size: u64, flags: u16) -> usize
    requires { 86 ≤ length out.old }
    ensures reply { take result out.new ≡ info_reply option size flags }
    ensures fits { result ≤ length out.new }
    ensures len { length out.new ≡ length out.old }
{
    let export = put_option_reply_head(out, 0, option, ReplyType::Information, 12);
    let after_export = put_export_info(out, export, size, flags);
    let block_size = put_option_reply_head(out, after_export, option, ReplyType::Information, 14);
    let after_block_size = put_block_size_info(out, block_size, 512, 4096, 1_048_576);
    put_option_reply_head(out, after_block_size, option, ReplyType::Acknowledged, 0)
}

/// The transmission flags of a pool.
pub(crate) fn flags_of(mode: Mode) -> u16
    ensures { result ≡ (if is_read_only mode then 0x6f else 0x6d) }
{
    match mode {
        Mode::ReadOnly => READ_ONLY_FLAGS,
        Mode::Writable | Mode::Failed => FLAGS,
    }
}

/// The same where the session is extended, with CAN_MULTI_CONN: what one connection was answered, a FLUSH on another keeps. Where READs are answered in
/// chunks, with SEND_DF.
fn flags_in(terms: Terms, flags: u16) -> u16
    requires { flags < 128 }
    ensures { result ≡ flags_in terms flags }
{
    let multi_conn = if is_extended(terms.profile) {
        MULTI_CONN
    } else {
        0
    };
    let send_df = if terms.is_structured { SEND_DF } else { 0 };
    multi_conn + (send_df + flags)
}

/// Whether the contexts that were asked for are those of the volume of this number.
fn is_of_volume(context: ContextOf, number: u32) -> bool
    ensures { result ≡ is_of_volume context number }
{
    match context {
        ContextOf::Volume(selected) => selected == number,
        ContextOf::Nothing | ContextOf::Clones(_) => false,
    }
}

/// Whether they are those of its clones.
fn is_of_clones(context: ContextOf, number: u32) -> bool
    ensures { result ≡ is_of_clones context number }
{
    match context {
        ContextOf::Clones(origin) => origin == number,
        ContextOf::Nothing | ContextOf::Volume(_) => false,
    }
}

/// Whether a client of the volume of this number is told of it.
fn is_told_of(terms: Terms, number: u32) -> bool
    ensures { result ≡ is_told_of terms number }
{
    terms.is_structured && is_of_volume(terms.context, number)
}

/// Whether a client of a clone of it is told of that.
pub(crate) fn is_told_of_clone(terms: Terms, number: u32) -> bool
    ensures { result ≡ is_told_of_clone terms number }
{
    terms.is_structured && is_of_clones(terms.context, number)
}

/// Since which older volume is to be told, where anything is.
fn since_where(is_told: bool, since: u32) -> u32
    ensures { result ≡ (if is_told then since else 16777216) }
{
    if is_told { since } else { NO_VOLUME }
}

/// How requests are taken and answered once transmission begins, of a volume or a clone, of which the client is told or not.
pub(crate) fn manner_by(terms: Terms, is_told: bool, is_clone: bool) -> Manner
    ensures { result ≡ manner_by terms is_told is_clone }
{
    Manner {
        is_extended: is_extended(terms.profile),
        is_structured: terms.is_structured,
        tells_blocks: is_told && terms.tells_blocks,
        since: since_where(is_told, terms.since),
        is_clone,
        writes_through: writes_through(terms.profile),
    }
}

/// That of a volume.
fn manner_of(terms: Terms, volume: DevId) -> Manner
    ensures { result ≡ manner_of terms volume }
{
    manner_by(terms, is_told_of(terms, volume.number()), false)
}

/// The same terms with other contexts.
pub(crate) fn in_context(terms: Terms, context: ContextOf, tells_blocks: bool, since: u32) -> Terms
    ensures { result ≡ in_context terms context tells_blocks since }
{
    Terms {
        context,
        tells_blocks,
        since,
        ..terms
    }
}

/// The same terms with no context.
pub(crate) fn without_context(terms: Terms) -> Terms
    ensures { result ≡ without_context terms }
{
    in_context(terms, ContextOf::Nothing, false, NO_VOLUME)
}

/// The reply that tells `base:allocation` under a number, at the front, where it is asked for.
fn put_allocation(out: &mut [u8], option: u32, code: u32, is_asked: bool) -> usize
    requires { 39 ≤ length out.old }
    ensures reply { take result out.new ≡ allocation_reply option code is_asked }
    ensures end { result ≤ 39 }
    ensures len { length out.new ≡ length out.old }
{
    if !is_asked {
        return 0;
    }
    put_context_reply(out, 0, option, code)
}

/// The reply that tells under a number since which older volume, at a place, where there is one.
fn put_since(out: &mut [u8], at: usize, option: u32, code: u32, since: u32) -> usize
    requires { at + 47 ≤ length out.old }
    ensures reply { take result out.new ≡ take at out.old ++ since_reply option code since }
    ensures end { result ≤ at + 47 }
    ensures len { length out.new ≡ length out.old }
{
    if since >= NO_VOLUME {
        return at;
    }
    put_since_id(out, at, option, code, since)
}

/// The same where there is one.
fn put_since_id(out: &mut [u8], at: usize, option: u32, code: u32, since: u32) -> usize
    requires id { since < 16777216 }
    requires room { at + 47 ≤ length out.old }
    ensures reply { take result out.new ≡ take at out.old ++ option_reply option Context (context_data code (since_name since)) }
    ensures end { result ≤ at + 47 }
    ensures len { length out.new ≡ length out.old }
{
    let mut digits = Buffer::new();
    let id = digits.format(since).as_bytes();
    put_since_reply(out, at, option, code, id)
}

/// The answer to an option that looks for contexts, at the front: a reply for each that is asked for, under its number, and ACK.
#[tactic(auto, unfolding(crate::specs::Session::context_reply))]
pub(crate) fn put_contexts(
    out: &mut [u8],
    option: u32,
    first: u32,
    second: u32,
    is_asked: bool,
    since: u32,
) -> usize
    requires { 106 ≤ length out.old }
    ensures reply { take result out.new ≡ context_reply option first second is_asked since }
    ensures fits { result ≤ length out.new }
    ensures len { length out.new ≡ length out.old }
{
    let behind_first = put_allocation(out, option, first, is_asked);
    let behind_second = put_since(out, behind_first, option, second, since);
    put_option_reply_head(out, behind_second, option, ReplyType::Acknowledged, 0)
}

/// The id of the older volume that a query names, where it is there, and else a number that is none. It is one that a name may mean.
fn seek<V: Volumes>(pool: &mut V, profile: Profile, text: &[u8]) -> Result<u32, Refusal>
    ensures { Sought V.view.outline (PoolCall V.view) (limit_of profile) text.now result pool.old pool.new }
{
    let Some(id) = named_in(profile, text) else {
        return Ok(NO_VOLUME);
    };
    match look_up(pool, id) {
        Ok(true) => Ok(id.number()),
        Ok(false) => Ok(NO_VOLUME),
        Err(refusal) => Err(refusal),
    }
}

/// LIST_META_CONTEXT of a volume.
fn tell_list<V: Volumes>(
    terms: Terms,
    volume: DevId,
    is_listed: bool,
    since: u32,
    out: &mut [u8],
    pool: &mut V,
) -> (Phase, usize)
    requires room { 106 ≤ length out.old }
    ensures answer { AsksFor V.view.outline (PoolCall V.view) (list_context terms is_listed since) volume pool.old (take result.1 out.new) result.0 pool.new }
    ensures fits { result.1 ≤ length out.new }
    ensures len { length out.new ≡ length out.old }
{
    match find(pool, volume) {
        Ok(Some(_)) => (
            Phase::Options { terms },
            put_contexts(out, OPTION_LIST_META_CONTEXT, 0, 0, is_listed, since),
        ),
        Ok(None) => answer_error(terms, OPTION_LIST_META_CONTEXT, ReplyType::Unknown, out),
        Err(_) => (Phase::Ended, 0),
    }
}

/// LIST_META_CONTEXT of the volume that a name means, or of which it means a clone.
fn list_of<V: Volumes>(
    terms: Terms,
    name: &[u8],
    is_listed: bool,
    since: u32,
    out: &mut [u8],
    pool: &mut V,
) -> (Phase, usize)
    requires room { 106 ≤ length out.old }
    ensures answer { LooksFor V.view.outline (PoolCall V.view) (list_context terms is_listed since) name.now pool.old (take result.1 out.new) result.0 pool.new }
    ensures fits { result.1 ≤ length out.new }
    ensures len { length out.new ≡ length out.old }
{
    match meant(terms.profile, name) {
        Some(volume) => tell_list(terms, volume, is_listed, since, out, pool),
        None => match origin_in(terms.profile, name) {
            Some(origin) => tell_list(terms, origin, is_listed, since, out, pool),
            None => answer_error(terms, OPTION_LIST_META_CONTEXT, ReplyType::Unknown, out),
        },
    }
}

/// SET_META_CONTEXT of a volume.
fn tell_set<V: Volumes>(
    terms: Terms,
    volume: DevId,
    is_asked: bool,
    since: u32,
    out: &mut [u8],
    pool: &mut V,
) -> (Phase, usize)
    requires room { 106 ≤ length out.old }
    ensures answer { AsksFor V.view.outline (PoolCall V.view) (set_context terms is_asked since) volume pool.old (take result.1 out.new) result.0 pool.new }
    ensures fits { result.1 ≤ length out.new }
    ensures len { length out.new ≡ length out.old }
{
    match find(pool, volume) {
        Ok(Some(_)) => {
            let terms = in_context(terms, ContextOf::Volume(volume.number()), is_asked, since);
            let sent = put_contexts(
                out,
                OPTION_SET_META_CONTEXT,
                ALLOCATION_CONTEXT,
                SINCE_CONTEXT,
                is_asked,
                since,
            );
            (Phase::Options { terms }, sent)
        }
        Ok(None) => {
            let terms = without_context(terms);
            answer_error(terms, OPTION_SET_META_CONTEXT, ReplyType::Unknown, out)
        }
        Err(_) => (Phase::Ended, 0),
    }
}

/// SET_META_CONTEXT of the volume that a name means, or of the clones of one.
fn set_of<V: Volumes>(
    terms: Terms,
    name: &[u8],
    is_asked: bool,
    since: u32,
    out: &mut [u8],
    pool: &mut V,
) -> (Phase, usize)
    requires room { 106 ≤ length out.old }
    ensures answer { LooksFor V.view.outline (PoolCall V.view) (set_context terms is_asked since) name.now pool.old (take result.1 out.new) result.0 pool.new }
    ensures fits { result.1 ≤ length out.new }
    ensures len { length out.new ≡ length out.old }
{
    match meant(terms.profile, name) {
        Some(volume) => tell_set(terms, volume, is_asked, since, out, pool),
        None => match origin_in(terms.profile, name) {
            Some(origin) => set_clone(terms, origin, is_asked, since, out, pool),
            None => {
                let terms = without_context(terms);
                answer_error(terms, OPTION_SET_META_CONTEXT, ReplyType::Unknown, out)
            }
        },
    }
}

/// LIST_META_CONTEXT of the volume that a name means; the queries say this text of an older one.
fn list_by<V: Volumes>(
    terms: Terms,
    name: &[u8],
    is_listed: bool,
    text: &[u8],
    out: &mut [u8],
    pool: &mut V,
) -> (Phase, usize)
    requires room { 106 ≤ length out.old }
    ensures answer { SeeksFor V.view.outline (PoolCall V.view) (list_context terms is_listed) text.now name.now pool.old (take result.1 out.new) result.0 pool.new }
    ensures fits { result.1 ≤ length out.new }
    ensures len { length out.new ≡ length out.old }
{
    match seek(pool, terms.profile, text) {
        Ok(since) => list_of(terms, name, is_listed, since, out, pool),
        Err(_) => (Phase::Ended, 0),
    }
}

/// SET_META_CONTEXT of the volume that a name means; the queries say this text of an older one.
fn set_by<V: Volumes>(
    terms: Terms,
    name: &[u8],
    is_asked: bool,
    text: &[u8],
    out: &mut [u8],
    pool: &mut V,
) -> (Phase, usize)
    requires room { 106 ≤ length out.old }
    ensures answer { SeeksFor V.view.outline (PoolCall V.view) (set_context terms is_asked) text.now name.now pool.old (take result.1 out.new) result.0 pool.new }
    ensures fits { result.1 ≤ length out.new }
    ensures len { length out.new ≡ length out.old }
{
    match seek(pool, terms.profile, text) {
        Ok(since) => set_of(terms, name, is_asked, since, out, pool),
        Err(_) => (Phase::Ended, 0),
    }
}

/// The answer to LIST_META_CONTEXT.
fn list_contexts<V: Volumes>(
    terms: Terms,
    payload: &[u8],
    out: &mut [u8],
    pool: &mut V,
) -> (Phase, usize)
    requires room { 106 ≤ length out.old }
    ensures answer { Queries V.view.outline (PoolCall V.view) OPTION_LIST_META_CONTEXT lists (list_context terms) terms terms payload.now pool.old (take result.1 out.new) result.0 pool.new }
    ensures fits { result.1 ≤ length out.new }
    ensures len { length out.new ≡ length out.old }
{
    if has_failed(pool.mode()) {
        return (Phase::Ended, 0);
    }
    if !terms.is_structured {
        return answer_error(terms, OPTION_LIST_META_CONTEXT, ReplyType::Invalid, out);
    }
    let Some(query) = read_query(payload) else {
        return answer_error(terms, OPTION_LIST_META_CONTEXT, ReplyType::Invalid, out);
    };
    list_by(terms, query.name, query.lists, query.since, out, pool)
}

/// The answer to SET_META_CONTEXT.
fn set_contexts<V: Volumes>(
    terms: Terms,
    payload: &[u8],
    out: &mut [u8],
    pool: &mut V,
) -> (Phase, usize)
    requires room { 106 ≤ length out.old }
    ensures answer { Queries V.view.outline (PoolCall V.view) OPTION_SET_META_CONTEXT asks_for (set_context terms) terms (without_context terms) payload.now pool.old (take result.1 out.new) result.0 pool.new }
    ensures fits { result.1 ≤ length out.new }
    ensures len { length out.new ≡ length out.old }
{
    if has_failed(pool.mode()) {
        return (Phase::Ended, 0);
    }
    let forgotten = without_context(terms);
    if !terms.is_structured {
        return answer_error(forgotten, OPTION_SET_META_CONTEXT, ReplyType::Invalid, out);
    }
    let Some(query) = read_query(payload) else {
        return answer_error(forgotten, OPTION_SET_META_CONTEXT, ReplyType::Invalid, out);
    };
    set_by(terms, query.name, query.asks, query.since, out, pool)
}

/// The answer to an option that an extended session alone may take.
fn extend<V: Volumes>(
    terms: Terms,
    option: u32,
    payload: &[u8],
    out: &mut [u8],
    pool: &mut V,
) -> (Phase, usize)
    requires room { 106 ≤ length out.old }
    ensures answer { Extends V.view.outline (PoolCall V.view) terms option payload.now pool.old (take result.1 out.new) result.0 pool.new }
    ensures fits { result.1 ≤ length out.new }
    ensures len { length out.new ≡ length out.old }
{
    if option == OPTION_STRUCTURED_REPLY {
        structure(terms, payload, out)
    } else if option == OPTION_LIST_META_CONTEXT {
        list_contexts(terms, payload, out, pool)
    } else if option == OPTION_SET_META_CONTEXT {
        set_contexts(terms, payload, out, pool)
    } else {
        answer_error(terms, option, ReplyType::Unsupported, out)
    }
}

/// The answer to STRUCTURED_REPLY.
fn structure(terms: Terms, payload: &[u8], out: &mut [u8]) -> (Phase, usize)
    requires room { 20 ≤ length out.old }
    ensures answer { IsOutcome (structures terms payload.now) (take result.1 out.new) result.0 }
    ensures fits { result.1 ≤ length out.new }
    ensures len { length out.new ≡ length out.old }
{
    if !payload.is_empty() {
        return answer_error(terms, OPTION_STRUCTURED_REPLY, ReplyType::Invalid, out);
    }
    let terms = Terms {
        is_structured: true,
        ..terms
    };
    let sent = put_option_reply(out, OPTION_STRUCTURED_REPLY, ReplyType::Acknowledged);
    (Phase::Options { terms }, sent)
}

/// Where a session stands that begins with transmission.
fn begin(terms: Terms, volume: DevId, size: u64) -> Phase
    ensures { result ≡ begun terms volume size }
{
    Phase::Transmission {
        volume,
        size,
        course: Course::Listens {
            manner: manner_of(terms, volume),
        },
    }
}

pub(crate) fn has_failed(mode: Mode) -> bool
    ensures { result ≡ is_failed mode }
{
    matches!(mode, Mode::Failed)
}

/// The bytes of so many blocks.
fn bytes_of(geometry: &Geometry, blocks: u32) -> u64
    requires { blocks ≤ 16777216 }
    ensures { result ≡ bytes_of_blocks geometry.now blocks }
{
    512 * (blocks as u64 * geometry.block_sectors() as u64)
}

/// Whether there is a volume: it is then the least from its own id on.
fn look_up<V: Volumes>(pool: &mut V, volume: DevId) -> Result<bool, Refusal>
    ensures looks { LooksUp V.view.outline (PoolCall V.view) volume result pool.old pool.new }
    ensures holds { (V.view.outline pool.new).holds ≡ (V.view.outline pool.old).holds }
{
    match pool.next_id(volume) {
        Ok(None) => Ok(false),
        Ok(Some(least)) => Ok(least.number() == volume.number()),
        Err(refusal) => Err(refusal),
    }
}

/// How many bytes a volume has.
pub(crate) fn size_of<V: Volumes>(
    pool: &mut V,
    geometry: &Geometry,
    volume: DevId,
) -> Result<u64, Refusal>
    ensures told { IsTold V.view.outline (PoolCall V.view) geometry.now volume result pool.old pool.new }
    ensures holds { (V.view.outline pool.new).holds ≡ (V.view.outline pool.old).holds }
{
    match pool.volume_blocks(volume) {
        Ok(blocks) => Ok(bytes_of(geometry, blocks)),
        Err(refusal) => Err(refusal),
    }
}

/// How many bytes a volume has that is held. Where that is refused the volume is let go.
fn take_on<V: Volumes>(pool: &mut V, geometry: &Geometry, volume: DevId) -> Result<u64, Refusal>
    requires held { 0 < hold_count (V.view.outline pool.old).holds volume }
    ensures { TakesOn V.view.outline (PoolCall V.view) geometry.now volume result pool.old pool.new }
{
    match size_of(pool, geometry, volume) {
        Ok(size) => Ok(size),
        Err(refusal) => {
            pool.let_go(volume);
            Err(refusal)
        }
    }
}

/// How many bytes a volume has, which is held from now on.
fn take_hold<V: Volumes>(pool: &mut V, geometry: &Geometry, volume: DevId) -> Result<u64, Refusal>
    requires ready { hold_total (V.view.outline pool.old).holds < 128 }
    ensures { TakesHold V.view.outline (PoolCall V.view) geometry.now volume result pool.old pool.new }
{
    match pool.hold(volume) {
        Ok(()) => take_on(pool, geometry, volume),
        Err(refusal) => Err(refusal),
    }
}

/// How many bytes a volume has, if it is there. It is held from now on.
fn find_and_hold<V: Volumes>(pool: &mut V, volume: DevId) -> Result<Option<u64>, Refusal>
    requires ready { hold_total (V.view.outline pool.old).holds < 128 }
    ensures { Learns V.view.outline (PoolCall V.view) true volume result pool.old pool.new }
{
    let geometry = pool.geometry();
    match look_up(pool, volume) {
        Ok(true) => match take_hold(pool, &geometry, volume) {
            Ok(size) => Ok(Some(size)),
            Err(refusal) => Err(refusal),
        },
        Ok(false) => Ok(None),
        Err(refusal) => Err(refusal),
    }
}

/// How many bytes a volume has, if it is there. It is not held.
pub(crate) fn find<V: Volumes>(pool: &mut V, volume: DevId) -> Result<Option<u64>, Refusal>
    ensures { Learns V.view.outline (PoolCall V.view) false volume result pool.old pool.new }
{
    let geometry = pool.geometry();
    match look_up(pool, volume) {
        Ok(true) => match size_of(pool, &geometry, volume) {
            Ok(size) => Ok(Some(size)),
            Err(refusal) => Err(refusal),
        },
        Ok(false) => Ok(None),
        Err(refusal) => Err(refusal),
    }
}

/// GO of a volume, which is held from now on.
fn enter<V: Volumes>(terms: Terms, volume: DevId, out: &mut [u8], pool: &mut V) -> (Phase, usize)
    requires ready { hold_total (V.view.outline pool.old).holds < 128 }
    requires room { 86 ≤ length out.old }
    ensures answer { AsksFor V.view.outline (PoolCall V.view) (go terms) volume pool.old (take result.1 out.new) result.0 pool.new }
    ensures fits { result.1 ≤ length out.new }
    ensures len { length out.new ≡ length out.old }
{
    let flags = flags_in(terms, flags_of(pool.mode()));
    match find_and_hold(pool, volume) {
        Ok(Some(size)) => (
            begin(terms, volume, size),
            put_info_reply(out, OPTION_GO, size, flags),
        ),
        Ok(None) => answer_error(terms, OPTION_GO, ReplyType::Unknown, out),
        Err(_) => (Phase::Ended, 0),
    }
}

/// GO of the volume that a name means, or of a clone of one.
fn go_by<V: Cloned>(terms: Terms, name: &[u8], out: &mut [u8], pool: &mut V) -> (Phase, usize)
    requires ready { hold_total (V.view.outline pool.old).holds < 128 }
    requires room { 86 ≤ length out.old }
    ensures answer { LooksFor V.view.outline (PoolCall V.view) (go terms) name.now pool.old (take result.1 out.new) result.0 pool.new }
    ensures fits { result.1 ≤ length out.new }
    ensures len { length out.new ≡ length out.old }
{
    match meant(terms.profile, name) {
        Some(volume) => enter(terms, volume, out, pool),
        None => match origin_in(terms.profile, name) {
            Some(origin) => enter_clone(terms, origin, out, pool),
            None => answer_error(terms, OPTION_GO, ReplyType::Unknown, out),
        },
    }
}

/// The answer to GO.
fn go<V: Cloned>(terms: Terms, payload: &[u8], out: &mut [u8], pool: &mut V) -> (Phase, usize)
    requires ready { hold_total (V.view.outline pool.old).holds < 128 }
    requires room { 86 ≤ length out.old }
    ensures answer { Informs V.view.outline (PoolCall V.view) OPTION_GO (go terms) terms payload.now pool.old (take result.1 out.new) result.0 pool.new }
    ensures fits { result.1 ≤ length out.new }
    ensures len { length out.new ≡ length out.old }
{
    if has_failed(pool.mode()) {
        return (Phase::Ended, 0);
    }
    let Some(name) = info_name(payload) else {
        return answer_error(terms, OPTION_GO, ReplyType::Invalid, out);
    };
    go_by(terms, name, out, pool)
}

/// INFO of a volume, which is not held.
fn tell<V: Volumes>(terms: Terms, volume: DevId, out: &mut [u8], pool: &mut V) -> (Phase, usize)
    requires room { 86 ≤ length out.old }
    ensures answer { AsksFor V.view.outline (PoolCall V.view) (info terms) volume pool.old (take result.1 out.new) result.0 pool.new }
    ensures fits { result.1 ≤ length out.new }
    ensures len { length out.new ≡ length out.old }
{
    let flags = flags_in(terms, flags_of(pool.mode()));
    match find(pool, volume) {
        Ok(Some(size)) => (
            Phase::Options { terms },
            put_info_reply(out, OPTION_INFO, size, flags),
        ),
        Ok(None) => answer_error(terms, OPTION_INFO, ReplyType::Unknown, out),
        Err(_) => (Phase::Ended, 0),
    }
}

/// INFO of the volume that a name means, or of a clone of one.
fn info_by<V: Volumes>(terms: Terms, name: &[u8], out: &mut [u8], pool: &mut V) -> (Phase, usize)
    requires room { 86 ≤ length out.old }
    ensures answer { LooksFor V.view.outline (PoolCall V.view) (info terms) name.now pool.old (take result.1 out.new) result.0 pool.new }
    ensures fits { result.1 ≤ length out.new }
    ensures len { length out.new ≡ length out.old }
{
    match meant(terms.profile, name) {
        Some(volume) => tell(terms, volume, out, pool),
        None => match origin_in(terms.profile, name) {
            Some(origin) => tell_clone(terms, origin, out, pool),
            None => answer_error(terms, OPTION_INFO, ReplyType::Unknown, out),
        },
    }
}

/// The answer to INFO.
fn info<V: Volumes>(terms: Terms, payload: &[u8], out: &mut [u8], pool: &mut V) -> (Phase, usize)
    requires room { 86 ≤ length out.old }
    ensures answer { Informs V.view.outline (PoolCall V.view) OPTION_INFO (info terms) terms payload.now pool.old (take result.1 out.new) result.0 pool.new }
    ensures fits { result.1 ≤ length out.new }
    ensures len { length out.new ≡ length out.old }
{
    if has_failed(pool.mode()) {
        return (Phase::Ended, 0);
    }
    let Some(name) = info_name(payload) else {
        return answer_error(terms, OPTION_INFO, ReplyType::Invalid, out);
    };
    info_by(terms, name, out, pool)
}

/// EXPORT_NAME of a volume, which is held from now on.
fn export<V: Volumes>(terms: Terms, volume: DevId, out: &mut [u8], pool: &mut V) -> (Phase, usize)
    requires ready { hold_total (V.view.outline pool.old).holds < 128 }
    requires room { 134 ≤ length out.old }
    ensures answer { AsksFor V.view.outline (PoolCall V.view) (export_name terms) volume pool.old (take result.1 out.new) result.0 pool.new }
    ensures fits { result.1 ≤ length out.new }
    ensures len { length out.new ≡ length out.old }
{
    let flags = flags_in(terms, flags_of(pool.mode()));
    match find_and_hold(pool, volume) {
        Ok(Some(size)) => {
            let sent = put_export_reply(out, 0, size, flags, terms.no_zeroes);
            (begin(terms, volume, size), sent)
        }
        Ok(None) | Err(_) => (Phase::Ended, 0),
    }
}

/// EXPORT_NAME of the volume that a name means, or of a clone of one.
fn export_by<V: Cloned>(terms: Terms, name: &[u8], out: &mut [u8], pool: &mut V) -> (Phase, usize)
    requires ready { hold_total (V.view.outline pool.old).holds < 128 }
    requires room { 134 ≤ length out.old }
    ensures answer { LooksFor V.view.outline (PoolCall V.view) (export_name terms) name.now pool.old (take result.1 out.new) result.0 pool.new }
    ensures fits { result.1 ≤ length out.new }
    ensures len { length out.new ≡ length out.old }
{
    match meant(terms.profile, name) {
        Some(volume) => export(terms, volume, out, pool),
        None => match origin_in(terms.profile, name) {
            Some(origin) => export_clone(terms, origin, out, pool),
            None => (Phase::Ended, 0),
        },
    }
}

/// The answer to EXPORT_NAME.
fn export_name<V: Cloned>(terms: Terms, name: &[u8], out: &mut [u8], pool: &mut V) -> (Phase, usize)
    requires ready { hold_total (V.view.outline pool.old).holds < 128 }
    requires room { 134 ≤ length out.old }
    ensures answer { Exports V.view.outline (PoolCall V.view) (export_name terms) terms name.now pool.old (take result.1 out.new) result.0 pool.new }
    ensures fits { result.1 ≤ length out.new }
    ensures len { length out.new ≡ length out.old }
{
    if has_failed(pool.mode()) {
        return (Phase::Ended, 0);
    }
    export_by(terms, name, out, pool)
}

/// The answer to one option.
pub fn choose<V: Cloned>(
    terms: Terms,
    option: u32,
    payload: &[u8],
    out: &mut [u8],
    pool: &mut V,
) -> (Phase, usize)
    requires ready { hold_total (V.view.outline pool.old).holds < 128 }
    requires room { 65564 ≤ length out.old }
    requires long { option ≡ OPTION_LIST → 2097172 ≤ length out.old }
    ensures answer { Chooses V.view.outline (PoolCall V.view) terms option payload.now pool.old (take result.1 out.new) result.0 pool.new }
    ensures fits { result.1 ≤ length out.new }
    ensures len { length out.new ≡ length out.old }
{
    if option == OPTION_GO {
        go(terms, payload, out, pool)
    } else if option == OPTION_INFO {
        info(terms, payload, out, pool)
    } else if option == OPTION_EXPORT_NAME {
        export_name(terms, payload, out, pool)
    } else if option == OPTION_LIST {
        list(terms, payload, out, pool)
    } else if option == OPTION_ABORT {
        (
            Phase::Ended,
            put_option_reply(out, OPTION_ABORT, ReplyType::Acknowledged),
        )
    } else if is_extended(terms.profile) {
        extend(terms, option, payload, out, pool)
    } else {
        answer_error(terms, option, ReplyType::Unsupported, out)
    }
}
