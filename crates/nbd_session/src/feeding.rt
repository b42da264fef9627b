//! A session over all that a client sends, however it is cut.

ghost use Rattle.std.specs.Prelude.{◌≡◌, ℕ, List, ◌++◌, false, take, OnOk, OnErr};
ghost use Rattle.nbd_session.specs.Clauses.{Feeds, IsReady};
ghost use Rattle.nbd_session.specs.Session.{is_at_work};

use crate::session::Session;
use std::alloc::AllocError;
use tp_model::Cloned;

/// Takes steps to the end of a piece, until no parts of a request are left, and adds what they send to `out`. What is sent for pieces fed one after another is an answer to
/// their text, of whose cutting nothing is said in it.
///
/// `Err` where there is no memory to add an answer: the piece is taken up to some place, and the end of what was sent up to there is lost.
pub fn feed<V: Cloned>(
    session: &mut Session,
    pool: &mut V,
    piece: &[u8],
    out: &mut Vec<u8>,
) -> Result<(), AllocError>
    requires { IsReady session.old.phase (V.view.outline pool.old) (V.view.more pool.old) }
    ensures done { OnOk result (is_at_work session.new.phase ≡ false) }
    ensures fed { OnOk result (Feeds V.view session.old pool.old piece.now out.old.items out.new.items session.new pool.new) }
    ensures lost { OnErr result ((taken : ℕ) × (lost : List ℕ) × Feeds V.view session.old pool.old (take taken piece.now) out.old.items (out.new.items ++ lost) session.new pool.new) }
{
    let _ = session.phase();
    let mut at = 0;
    while at < piece.len() || session.is_at_work() {
        let step = session.step(pool, &piece[at..]);
        out.extend_from_slice(step.sent)?;
        at += step.taken;
    }
    Ok(())
}
