//! What was held or kept is found.
ghost use Rattle.std.specs.Prelude.{◌≡◌, ◌++◌, ◌∷◌, ◌+◌, ◌/◌, ◌%◌, ◌<◌, ◌≤◌, [], Err, List, None, length, true};
ghost use Rattle.tp_model.specs.Pool.{PlainPool, hold_count};
ghost use Rattle.tp_model.specs.PoolStops.{keeps, reopened};
ghost use Rattle.tp_model.specs.Clauses.{EndsInVolume, Entry, Traced};
ghost use Rattle.nbd_session.specs.Turns.{IsFoundIn, Sessions};

use tp_model::{DevId, Refusal, Volumes, kept_answers_are_found, requests_find_their_volume};

/// Reads sectors of a volume that is held: whatever it is refused for, the volume is there.
pub fn held_volume_is_there<V: Volumes>(
    pool: &mut V,
    id: DevId,
    sector: u64,
    out: &mut [u8],
) -> Result<(), Refusal>
    requires held { 0 < hold_count (V.view.outline pool.old).holds id }
    requires whole { length out.old % 512 ≡ 0 }
    requires range { EndsInVolume V.view pool.old id (sector + length out.old / 512) }
    requires most { length out.old / 512 ≤ 2048 }
    ensures { (s : PlainPool) → V.view.shows pool.old s → result ≡ Err Refusal.NoSuchDevice → ⊥ }
{
    requests_find_their_volume::<V>();
    pool.read(id, sector, out)
}

/// A pool that was stopped with no turn in progress, and whose last answer kept, is found in exactly the state of that answer: no earlier
/// and no later one, and no sector with another value.
pub fn kept_state_is_found_alone<V: Volumes>()
    ensures { (s found : PlainPool) (at : Sessions) (t : Traced) (first : List Entry) (last : Entry) → IsFoundIn V.view s at t None found
        → t.trace ≡ first ++ last ∷ [] → keeps last.event.call last.event.answer ≡ true → found ≡ reopened last.event.made }
{
    kept_answers_are_found();
}
