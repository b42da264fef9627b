//! The first session is answered.
ghost use Rattle.std.specs.Prelude.{◌≡◌, ◌++◌, ◌<◌, [], ℕ, List, IfErr, IfOk, OnOk, length};
ghost use Rattle.tp_model.specs.Pool.{PlainPool};
ghost use Rattle.nbd_session.specs.declared.phase.Phase.TheVariants.{Flags};
ghost use Rattle.nbd_session.specs.declared.phase.Profile.TheVariants.{Strict};
ghost use Rattle.nbd_session.specs.Session.{State, state};
ghost use Rattle.nbd_session.specs.Clauses.{HoldsBeside, IsReady};
ghost use Rattle.nbd_session.specs.Talk.{Converses};
ghost use Rattle.tp_users.specs.First.{Counted, CountedCall, FirstIsAnswered, IsFirstAnswer, counted, first_text, outline_of_counted};
ghost use Rattle.tp_users.specs.Users.{IsOutside};

use crate::blank::blank_pool;
use nbd_session::{Profile, Session, feed};
use std::alloc::Global;
use tp_disk::MemDisk;
use tp_meta::Meta;
use tp_model::{Cloned, DevId, Refusal};
use tp_pool::{Pool, images_use_bounded_metadata, room_lasts_to_the_bound};

/// A client that chooses the volume of a blank pool, writes a sector, reads it and flushes is sent exactly the bytes of these answers, and
/// what it reads is what it wrote; or it is told of the call that was refused.
pub fn first_session_is_answered()
    ensures { FirstIsAnswered }
{
    room_lasts_to_the_bound::<Meta>();
}

/// Feeds a session all that a client sends at once, over a pool that shows a plain pool: what is sent is what that one's session sends, and the
/// disk failed where a fault was answered.
fn converse<V: Cloned>(
    session: &mut Session,
    pool: &mut V,
    text: &[u8],
    out: &mut Vec<u8>,
) -> Result<(), Refusal>
    requires { IsReady session.old.phase (V.view.outline pool.old) (V.view.more pool.old) }
    ensures talks { OnOk result ((s : PlainPool) → V.view.shows pool.old s
        → (c : Counted) × Converses outline_of_counted CountedCall session.old text.now (counted s (V.view.failures pool.old)) out.old.items out.new.items session.new c
        × (c.failures ≡ V.view.failures pool.new)) }
    ensures only { IfErr result (λ reason. reason ≡ Refusal.Memory) }
{
    match feed(session, pool, text, out) {
        Ok(()) => Ok(()),
        Err(_) => Err(Refusal::Memory),
    }
}

/// Opens a session, and feeds it all that a client sends at once.
fn converse_anew<V: Cloned>(
    alloc: Global,
    pool: &mut V,
    text: &[u8],
    out: &mut Vec<u8>,
) -> Result<(), Refusal>
    requires { HoldsBeside [] (V.view.outline pool.old).holds }
    ensures talks { OnOk result ((s : PlainPool) → V.view.shows pool.old s
        → (new : State) × (c : Counted)
        × Converses outline_of_counted CountedCall (state (Flags Strict) []) text.now (counted s (V.view.failures pool.old)) out.old.items out.new.items new c
        × (c.failures ≡ V.view.failures pool.new)) }
    ensures only { IfErr result (λ reason. reason ≡ Refusal.Memory) }
{
    let mut session = Session::open(alloc, Profile::Strict)?;
    converse(&mut session, pool, text, out)
}

/// Serves one client over a blank pool in memory: all that it sends at once, the answers added to `out` behind what stands there. A first
/// session is answered as `first_session_is_answered` says: whole, where the disk of the pool that is handed back never failed.
///
/// It refuses where there is no memory, for the disk, for a write to it (a fault), for the session or for its answers.
pub fn serve_first(
    alloc: Global,
    text: &[u8],
    out: &mut Vec<u8>,
) -> Result<Pool<MemDisk, Meta>, Refusal>
    ensures answered { IfOk result (λ pool. (payload : List ℕ) → length payload ≡ 512 → text.now ≡ first_text payload
        → (sent : List ℕ) × (out.new.items ≡ out.old.items ++ sent) × IsFirstAnswer payload (0 < pool.disk.failures) sent) }
    ensures only { IfErr result (λ reason. IsOutside reason) }
{
    let mut pool = blank_pool(alloc, DevId::new(0))?;
    first_session_is_answered();
    images_use_bounded_metadata::<Meta>();
    converse_anew(alloc, &mut pool, text, out)?;
    Ok(pool)
}
