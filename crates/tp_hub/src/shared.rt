//! READs and BLOCK_STATUSes of one session that are answered by shared reads and walks, while nothing else is done to the hub.

ghost use Rattle.std.specs.Prelude.{◌≡◌, ◌<◌, ◌≤◌, None, false, length, take, IfSome};
ghost use Rattle.nbd_session.specs.Session.{has_ended, is_at_work};
ghost use Rattle.nbd_session.specs.Clauses.{IsReady};
ghost use Rattle.tp_hub.specs.Places.{HearsAnywhere, IsAskedStill, IsRan};
ghost use Rattle.tp_hub.specs.Serving.{Serves, sessions_of};
ghost use Rattle.tp_hub.specs.Told.{IsWider};

use crate::answers::Answers;
use crate::hub::{Ran, SESSIONS};
use nbd_session::Session;
use tp_model::{SharedReads, Volumes};

/// At most so many READs and BLOCK_STATUSes of a client are taken before others may have the hub alone.
const MOST_LOOKS: u32 = 16;

/// A session hears the READs and BLOCK_STATUSes with which a piece begins, as long as a shared read or walk answers each, 16 at most: how many bytes they
/// have. Room is made before each.
fn hear<V: Volumes, S: SharedReads<V>>(
    session: &Session,
    pool: &S,
    number: u8,
    piece: &[u8],
    out: &mut Answers,
) -> usize
    requires ready { IsReady session.now.phase (V.view.outline (S.of pool.now)) (V.view.more (S.of pool.now)) }
    requires open { has_ended session.now.phase ≡ false }
    requires idle { is_at_work session.now.phase ≡ false }
    ensures hears { HearsAnywhere V.view number session.now (S.of pool.now) (take result piece.now) out.old out.new session.now (S.of pool.now) }
    ensures within { result ≤ length piece.now }
{
    let mut at = 0;
    for look in 0..MOST_LOOKS {
        if at >= piece.len() {
            return at;
        }
        if out.make_room().is_err() {
            return at;
        }
        match out.read_shared(session, pool, number, &piece[at..]) {
            None => return at,
            Some(taken) => at += taken,
        }
    }
    at
}

/// What the hub tells where `bytes` of a piece of `len` bytes were taken; none where nothing was.
fn ran(bytes: usize, len: usize) -> Option<Ran>
    requires { bytes ≤ len }
    ensures some { IfSome result (λ r. (0 < bytes) × IsRan bytes len r.events r.bytes) }
    ensures none { result ≡ None → bytes ≡ 0 }
{
    if bytes == 0 {
        return None;
    }
    if bytes < len {
        return Some(Ran { events: 0, bytes });
    }
    Some(Ran {
        events: 1,
        bytes: 0,
    })
}

/// The session of this number takes the READs and BLOCK_STATUSes with which a piece begins. None where it takes none, as where nobody is there or parts of a request are left.
pub fn ask_place<V: Volumes, S: SharedReads<V>>(
    sessions: &[Option<Session>; SESSIONS],
    pool: &S,
    number: u8,
    piece: &[u8],
    out: &mut Answers,
) -> Option<Ran>
    requires serves { Serves (V.view.outline (S.of pool.now)) (V.view.more (S.of pool.now)) sessions.now }
    requires number { number < 64 }
    ensures asked { IfSome result (λ r. IsAskedStill V.view number piece.now (sessions_of sessions.now) (S.of pool.now) r.events r.bytes out.old out.new) }
    ensures none { result ≡ None → IsWider out.old out.new }
{
    match &sessions[usize::from(number)] {
        None => None,
        Some(session) => {
            if session.is_at_work() {
                return None;
            }
            let bytes = hear(session, pool, number, piece, out);
            ran(bytes, piece.len())
        }
    }
}
