//! The marks of the data blocks that a run of virtual blocks loses.

ghost use Rattle.std.specs.Prelude.{◌≡◌, ◌<◌, ℕ, IsSome, IsTrue, None, length, not, slice_index_or};
ghost use Rattle.std.specs.Option.{option_map};
ghost use Rattle.tp_mapping.specs.declared.mapped.Mapped.{Mapped};
ghost use Rattle.tp_meta.specs.Marking.{marked_places};
ghost use Rattle.tp_meta.specs.Metadata.{marked};

use crate::marks::Marks;
use tp_mapping::Mapped;

/// Whether one of the virtual blocks has a data block.
pub(crate) fn has_some(places: &[Option<Mapped>]) -> bool
    ensures none { IsTrue (not result) → (i : ℕ) → i < length places.now → slice_index_or places.now i None ≡ None }
    ensures some { IsTrue result → (i : ℕ) × (i < length places.now) × IsSome (slice_index_or places.now i None) }
{
    for i in 0..places.len() {
        if places[i].is_some() {
            return true;
        }
    }
    false
}

/// Marks the data block that a virtual block had and has no more, if it had one.
pub(crate) fn lose(marks: &mut Marks, lost: Option<Mapped>)
    ensures { marks.new ≡ marked (option_map (λ at. at.place) lost) marks.old }
{
    let Some(at) = lost else {
        return;
    };
    marks.put(at.place);
}

/// Marks the data blocks that were lost.
pub(crate) fn lose_each(marks: &mut Marks, places: &[Option<Mapped>])
    ensures { marks.new ≡ marked_places (length places.now) places.now marks.old }
{
    for i in 0..places.len() {
        lose(marks, places[i]);
    }
}
