//! What a pool's metadata tell of the places of a mapping.

ghost use Rattle.std.specs.Prelude.{◌≡◌, ◌<◌, ℕ, None, length, slice_index_or};
ghost use Rattle.tp_meta.specs.Metadata.{home_of};

use crate::marks::Marks;
use crate::metadata::Home;
use tp_mapping::Mapped;

/// What is told of a place, by the marks.
fn home_in(marks: &Marks, place: Option<Mapped>) -> Option<Home>
    ensures { result ≡ home_of marks.now place }
{
    let Some(at) = place else {
        return None;
    };
    Some(Home {
        place: at.place,
        is_shared: at.is_shared,
        is_hot: marks.has(at.place),
    })
}

/// What is told of each place, by the marks.
pub(crate) fn homes_in(marks: &Marks, places: &[Option<Mapped>], homes: &mut [Option<Home>])
    requires { length homes.old ≡ length places.now }
    ensures length { length homes.new ≡ length homes.old }
    ensures value { (i : ℕ) → i < length homes.old → slice_index_or homes.new i None ≡ home_of marks.now (slice_index_or places.now i None) }
{
    for i in 0..homes.len() {
        homes[i] = home_in(marks, places[i]);
    }
}
