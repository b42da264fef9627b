//! What a mapping on trees tells of a run of virtual blocks.

ghost use Rattle.std.specs.Prelude.{◌≡◌, ◌<◌, ◌≤◌, ◌^◌, ◌+◌, ◌⊎◌, ℕ, List, [], IfErr, IfOk, IsTrue, MatchOption, None, OnOk, length, slice_index_or};
ghost use Rattle.tp_model.specs.Geometry.{Geometry, sectors_of_image};
ghost use Rattle.tp_counts.specs.LookUps.{IsLookedUp};
ghost use Rattle.tp_refs.specs.Store.{Store};
ghost use Rattle.tp_sharing.specs.Forest.{content};
ghost use Rattle.tp_sharing.specs.Volumes.{Volumes};
ghost use Rattle.tp_mapping.specs.Mapping.{AreInside, AreTold, IsInside};
ghost use Rattle.tp_mapping.specs.Held.{HasThere, HoldsVolume};
ghost use Rattle.tp_mapping.specs.Telling.{IsMappedOf, NameSlots};

use crate::mapped::Mapped;
use crate::mapping::MOST_RUN;
use crate::volume::{There, data_block_of};
use tp_btree::{Found, lookup_run};
use tp_counts::StoreError;
use tp_disk::Disk;
use tp_layout::TreeKind;
use tp_model::Vb;
use tp_tm::Tm;

/// The place that an entry of a volume's tree tells. `Damaged` where it names no data block of the pool.
fn place_in(tm: &Tm, is_shared: bool, found: Option<Found>) -> Result<Option<Mapped>, StoreError>
    ensures value { IfOk result (λ place. IsMappedOf is_shared found place) }
    ensures inside { IfOk result (λ place. IsInside tm.now.geometry.data_blocks place) }
    ensures err { IfErr result (λ error. (error ≡ StoreError.Damaged) × MatchOption found ⊥ (λ there. tm.now.geometry.data_blocks ≤ there.entry.value)) }
{
    let Some(found) = found else {
        return Ok(None);
    };
    let place = data_block_of(tm, found.entry.value)?;
    Ok(Some(Mapped {
        place,
        is_shared: is_shared | found.is_shared,
    }))
}

/// The places that entries of a volume's tree tell.
fn places_in(
    tm: &Tm,
    is_shared: bool,
    found: &[Option<Found>],
    places: &mut [Option<Mapped>],
) -> Result<(), StoreError>
    requires { length places.old ≡ length found.now }
    ensures length { length places.new ≡ length places.old }
    ensures value { OnOk result ((i : ℕ) → i < length places.old → IsMappedOf is_shared (slice_index_or found.now i None) (slice_index_or places.new i None)) }
    ensures inside { OnOk result (AreInside tm.now.geometry.data_blocks (length places.old) places.new) }
    ensures err { IfErr result (λ error. (error ≡ StoreError.Damaged) × ((i : ℕ) × (i < length places.old)
        × MatchOption (slice_index_or found.now i None) ⊥ (λ there. tm.now.geometry.data_blocks ≤ there.entry.value))) }
{
    for i in 0..places.len() {
        places[i] = place_in(tm, is_shared, found[i])?;
    }
    Ok(())
}

/// The data blocks of a run of virtual blocks of a volume, by entries that `found` takes.
fn find_places<D: Disk>(
    tm: &Tm,
    disk: &mut D,
    there: There,
    first: Vb,
    found: &mut [Option<Found>],
    places: &mut [Option<Mapped>],
) -> Result<(), StoreError>
    requires disk { sectors_of_image tm.now.geometry ≤ (D.state disk.old).size }
    requires inside { there.volume.root < tm.now.geometry.metadata_blocks }
    requires few { length places.old ≤ 17 }
    requires same { length places.old ≡ length found.old }
    ensures length { length places.new ≡ length places.old }
    ensures looked { IsLookedUp (λ P. IsTrue (D.state disk.old).is_honest → (g : Geometry) (root : ℕ) (now : Volumes) (device : ℕ) → HasThere g tm.now (D.state disk.old) root now device there
        → first + length places.old ≤ 2 ^ 24 → P device now) (D.state disk.old) (D.state disk.new) result (λ done device now. AreTold device first now (length places.old) places.new) }
    ensures named { IsLookedUp (λ P. IsTrue (D.state disk.old).is_honest → (refs : List ℕ) (s : Store) → HoldsVolume tm.now (D.state disk.old) refs s there.volume.root
        → first + length places.old ≤ 2 ^ 24 → P refs s) (D.state disk.old) (D.state disk.new) result
        (λ done refs s. NameSlots tm.now.geometry.metadata_blocks (content 1 s there.volume.root) first (length places.old) places.new) }
    ensures inside { OnOk result (AreInside tm.now.geometry.data_blocks (length places.old) places.new) }
{
    let key = first.number() as u64;
    lookup_run(tm, disk, TreeKind::Mapping, there.volume.root, key, found)?;
    places_in(tm, there.is_shared, found, places)
}

/// The data blocks of a run of virtual blocks of a volume, and whether another slot has each of them too.
pub(crate) fn places_at<D: Disk>(
    tm: &Tm,
    disk: &mut D,
    there: There,
    first: Vb,
    places: &mut [Option<Mapped>],
) -> Result<(), StoreError>
    requires disk { sectors_of_image tm.now.geometry ≤ (D.state disk.old).size }
    requires inside { there.volume.root < tm.now.geometry.metadata_blocks }
    requires few { length places.old ≤ 17 }
    ensures length { length places.new ≡ length places.old }
    ensures looked { IsLookedUp (λ P. IsTrue (D.state disk.old).is_honest → (g : Geometry) (root : ℕ) (now : Volumes) (device : ℕ) → HasThere g tm.now (D.state disk.old) root now device there
        → first + length places.old ≤ 2 ^ 24 → P device now) (D.state disk.old) (D.state disk.new) result (λ done device now. AreTold device first now (length places.old) places.new) }
    ensures named { IsLookedUp (λ P. IsTrue (D.state disk.old).is_honest → (refs : List ℕ) (s : Store) → HoldsVolume tm.now (D.state disk.old) refs s there.volume.root
        → first + length places.old ≤ 2 ^ 24 → P refs s) (D.state disk.old) (D.state disk.new) result
        (λ done refs s. NameSlots tm.now.geometry.metadata_blocks (content 1 s there.volume.root) first (length places.old) places.new) }
    ensures inside { OnOk result (AreInside tm.now.geometry.data_blocks (length places.old) places.new) }
{
    let mut found = [None; MOST_RUN];
    let count = places.len();
    find_places(tm, disk, there, first, &mut found[..count], places)
}
