//! Places of a run of virtual blocks.

ghost use Rattle.std.specs.Prelude.{◌≡◌, ◌<◌, ℕ, None, length, slice_index_or};

use crate::mapped::Mapped;

/// Tells of no place.
pub(crate) fn clear(places: &mut [Option<Mapped>])
    ensures length { length places.new ≡ length places.old }
    ensures none { (i : ℕ) → i < length places.old → slice_index_or places.new i None ≡ None }
{
    for i in 0..places.len() {
        places[i] = None;
    }
}
