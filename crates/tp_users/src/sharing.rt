//! Those who look at a pool at once.
ghost use Rattle.std.specs.Prelude.{◌≡◌, ◌+◌, ◌/◌, ◌%◌, ◌≤◌, IsTrue, length};
ghost use Rattle.tp_model.specs.Clauses.{EndsInVolume};
ghost use Rattle.tp_model.specs.Pool.{PlainPool};

use tp_model::{DevId, SharedVolumes};

/// Reads the same sectors for two of those who look at a pool at once: where both are told them, they are told the same.
pub fn readers_agree<V: SharedVolumes>(
    pool: &V,
    id: DevId,
    sector: u64,
    first: &mut [u8],
    second: &mut [u8],
) -> bool
    requires whole { length first.old % 512 ≡ 0 }
    requires alike { length second.old ≡ length first.old }
    requires range { EndsInVolume V.view pool.now id (sector + length first.old / 512) }
    requires most { length first.old / 512 ≤ 2048 }
    ensures { IsTrue result → (s : PlainPool) → V.view.shows pool.now s → first.new ≡ second.new }
{
    if !pool.read_shared(id, sector, first) {
        return false;
    }
    pool.read_shared(id, sector, second)
}
