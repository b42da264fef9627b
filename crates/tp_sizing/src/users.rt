//! Users of `sizes_for`, proved from its contract alone.
ghost use Rattle.std.specs.Prelude.{◌≡◌, ◌+◌, ◌≤◌, ◌<◌, IfErr, IfOk, All};
ghost use Rattle.std.specs.FinMap.{entries, len};
ghost use Rattle.tp_model.specs.Pool.{PlainPool};
ghost use Rattle.tp_image.specs.Bound.{mapped_in, metadata_bound};
ghost use Rattle.tp_sizing.specs.Sizing.{IsInRange, most_mapped};
ghost use Rattle.tp_sizing.specs.declared.wanted.Unfit.TheVariants as unfits;

use crate::sizing::sizes_for;
use crate::wanted::{Unfit, Wanted};
use tp_model::Geometry;

/// In a pool of these sizes, with no more volumes than were wanted, each with no more mapped than the pool has blocks and a volume of its
/// size, 512 metadata blocks are there beside the most that it may use. So many volumes are fewer than the 65536 that a pool may have.
pub fn volumes_have_room(wanted: &Wanted) -> Result<Geometry, Unfit>
    ensures room { IfOk result (λ g. (s : PlainPool) → s.geometry ≡ g → len s.volumes ≤ wanted.now.volumes
        → All (λ e. len e.1.slots ≤ most_mapped g) (entries s.volumes)
        → metadata_bound s.geometry (mapped_in s) + 512 ≤ s.geometry.metadata_blocks) }
    ensures devices { IfOk result (λ g. wanted.now.volumes < 65536) }
{
    sizes_for(wanted)
}

/// A pool for what is wanted, or where that is too many volumes for as many as fit: refused only out of range.
pub fn what_fits_is_taken(wanted: &Wanted) -> Result<Geometry, Unfit>
    ensures { IfErr result (λ e. (e ≡ unfits.OutOfRange) × (IsInRange wanted.now → ⊥)) }
{
    match sizes_for(wanted) {
        Err(Unfit::TooMany { fit }) => sizes_for(&Wanted {
            volumes: fit,
            ..*wanted
        }),
        done => done,
    }
}
