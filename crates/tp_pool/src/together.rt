//! Blocks of a range whose data blocks follow one another on the disk, which are read or written in one call.
ghost use Rattle.std.specs.Prelude.{◌≡◌, ◌⊎◌, ◌+◌, ◌*◌, ◌%◌, ◌<◌, ◌≤◌, ℕ, length, slice_index_or, IsTrue, None, Some};
ghost use Rattle.tp_pool.specs.Writing.{old_place, own_place};
ghost use Rattle.tp_pool.specs.Reading.{place_for};

use tp_meta::Home;
use tp_model::{Geometry, Pb};

/// What a data block is wanted for.
#[derive(Clone, Copy, Debug, PartialEq, Eq)]
pub(crate) enum Purpose {
    /// To be read, whoever else has it.
    Reading,
    /// To be written in place.
    Overwriting,
}

/// The data block that may be written in place.
pub(crate) fn own_place(home: &Option<Home>) -> Option<Pb>
    ensures { result ≡ own_place home.now }
{
    match home {
        Some(home) => {
            if home.is_shared || home.is_hot {
                None
            } else {
                Some(home.place)
            }
        }
        None => None,
    }
}

/// The data block that stands there, shared or not.
pub(crate) fn old_place(home: &Option<Home>) -> Option<Pb>
    ensures { result ≡ old_place home.now }
{
    match home {
        Some(home) => Some(home.place),
        None => None,
    }
}

/// The data block that serves a purpose.
fn place_for(purpose: Purpose, home: &Option<Home>) -> Option<Pb>
    ensures { result ≡ place_for purpose home.now }
{
    match purpose {
        Purpose::Reading => old_place(home),
        Purpose::Overwriting => own_place(home),
    }
}

/// Whether this data block serves the purpose.
fn is_at(purpose: Purpose, home: &Option<Home>, place: u32) -> bool
    ensures told { IsTrue result → place_for purpose home.now ≡ Some place }
    ensures tells { place_for purpose home.now ≡ Some place → IsTrue result }
{
    match place_for(purpose, home) {
        Some(found) => found.number() == place,
        None => false,
    }
}

/// How many blocks from this one on serve the purpose and follow one another on the disk, from this data block on.
fn run_of(purpose: Purpose, homes: &[Option<Home>], index: usize, place: Pb) -> u32
    requires few { length homes.now ≤ 17 }
    requires inside { index < length homes.now }
    requires own { place_for purpose (slice_index_or homes.now index None) ≡ Some place }
    ensures some { 0 < result }
    ensures most { index + result ≤ length homes.now }
    ensures run { (i : ℕ) → i < result → place_for purpose (slice_index_or homes.now (index + i) None) ≡ Some (place + i) }
{
    let mut run = 1;
    while index + run < homes.len() {
        let at = index + run;
        if !is_at(purpose, &homes[at], place.number() + run as u32) {
            return run as u32;
        }
        run += 1;
    }
    run as u32
}

/// How many blocks from this one on are read or written together: one that has no data block for the purpose stands alone.
pub(crate) fn together(purpose: Purpose, homes: &[Option<Home>], index: usize) -> u32
    requires few { length homes.now ≤ 17 }
    requires inside { index < length homes.now }
    ensures some { 0 < result }
    ensures most { index + result ≤ length homes.now }
    ensures alone { place_for purpose (slice_index_or homes.now index None) ≡ None → result ≡ 1 }
    ensures run { (place : ℕ) → place_for purpose (slice_index_or homes.now index None) ≡ Some place
        → (i : ℕ) → i < result → place_for purpose (slice_index_or homes.now (index + i) None) ≡ Some (place + i) }
{
    match place_for(purpose, &homes[index]) {
        Some(place) => run_of(purpose, homes, index, place),
        None => 1,
    }
}

/// How many blocks from this one on cannot be written in place: at least one, since this one cannot, and else at most `most`.
fn new_together(homes: &[Option<Home>], index: usize, most: u64) -> u32
    requires few { length homes.now ≤ 17 }
    requires inside { index < length homes.now }
    requires new { own_place (slice_index_or homes.now index None) ≡ None }
    requires most { most ≤ 2048 }
    ensures some { 0 < result }
    ensures most { index + result ≤ length homes.now }
    ensures whole { (result ≡ 1) ⊎ (result ≤ most) }
    ensures new { (i : ℕ) → i < result → own_place (slice_index_or homes.now (index + i) None) ≡ None }
{
    let end = homes.len().min(index + most as usize);
    let mut run = 1;
    while index + run < end {
        let at = index + run;
        if own_place(&homes[at]).is_some() {
            return run as u32;
        }
        run += 1;
    }
    run as u32
}

/// How many blocks from the one of a sector on are written together, where so many sectors are left: those that may be written in place and follow
/// one another on the disk, or whole ones that may not. Any other one stands alone.
pub(crate) fn blocks_together(
    geometry: &Geometry,
    sector: u64,
    count: u64,
    homes: &[Option<Home>],
    index: usize,
) -> u32
    requires most { count ≤ 2048 }
    requires few { length homes.now ≤ 17 }
    requires inside { index < length homes.now }
    ensures some { 0 < result }
    ensures most { index + result ≤ length homes.now }
    ensures run { (place : ℕ) → own_place (slice_index_or homes.now index None) ≡ Some place
        → (i : ℕ) → i < result → own_place (slice_index_or homes.now (index + i) None) ≡ Some (place + i) }
    ensures new { own_place (slice_index_or homes.now index None) ≡ None → (i : ℕ) → i < result → own_place (slice_index_or homes.now (index + i) None) ≡ None }
    ensures whole { own_place (slice_index_or homes.now index None) ≡ None
        → (result ≡ 1) ⊎ ((sector % geometry.now.block_sectors ≡ 0) × (result * geometry.now.block_sectors ≤ count)) }
{
    let block_sectors = geometry.block_sectors() as u64;
    if own_place(&homes[index]).is_some() {
        return together(Purpose::Overwriting, homes, index);
    }
    if sector % block_sectors != 0 {
        return 1;
    }
    new_together(homes, index, count / block_sectors)
}
