//! Laws of the definitions, each the contract of a function that does nothing.
ghost use Rattle.std.specs.Prelude.{◌≡◌, ◌≢◌, ◌/◌, ◌<◌, ◌≤◌, ℕ, List, [], IsSome, None, Some};
ghost use Rattle.std.specs.FinMap.{entries};
ghost use Rattle.tp_model.specs.Sectors.{Sector, zero_sector};
ghost use Rattle.tp_model.specs.Pool.{IsSound, PlainPool, slot_at, volume_sector, volume_size, volume_slots};
ghost use Rattle.tp_model.specs.Calls.{piece_from, volume_blocks};
ghost use Rattle.tp_listings.specs.Listings.{AreRunsOf, Covers, IsDelta};
ghost use Rattle.tp_listings.specs.Pages.{AreOrdered, IsPage, joined};

use crate::extent::Extent;

/// A block that a delta does not list has equal sectors in both volumes, and behind the old volume's end zeros: so the old volume, made as large as the new one, with the
/// listed blocks of the new one put over it, is the new one.
pub fn deltas_restore()
    ensures same { (s : PlainPool) (old new k : ℕ) (extents : List Extent) (here there : Sector) → IsSound s → IsDelta s old new extents
        → (Covers extents (k / s.geometry.block_sectors) → ⊥) → volume_sector s new k ≡ Some here → volume_sector s old k ≡ Some there → here ≡ there }
    ensures beyond { (s : PlainPool) (old new k : ℕ) (extents : List Extent) (here : Sector) → IsSound s → IsDelta s old new extents
        → (Covers extents (k / s.geometry.block_sectors) → ⊥) → volume_sector s new k ≡ Some here → volume_sector s old k ≡ None → here ≡ zero_sector }
{}

/// What pages say of a pool whose walks list these slots: a page's runs are those of the blocks from `from` on and before its end in which the two volumes have not the same data
/// block, or, of no slots of an old volume, of those that are mapped. Its end is behind `from`, unless that is no block of the volume, and is not behind `most`; so pages that
/// are asked for one behind the other come to an end, and together they are the whole listing.
pub fn pages_are_exact()
    ensures ordered { (s : PlainPool) (id from : ℕ) → AreOrdered (piece_from from (entries (volume_slots s id))) }
    ensures differ { (s : PlainPool) (old new from most end : ℕ) (extents : List Extent)
        → IsPage (piece_from from (entries (volume_slots s old))) (piece_from from (entries (volume_slots s new))) from most extents end
        → AreRunsOf extents (λ block. (from ≤ block) × (block < end) × (slot_at s new block ≢ slot_at s old block)) }
    ensures mapped { (s : PlainPool) (id from most end : ℕ) (extents : List Extent) → IsPage [] (piece_from from (entries (volume_slots s id))) from most extents end
        → AreRunsOf extents (λ block. (from ≤ block) × (block < end) × IsSome (slot_at s id block)) }
    ensures onward { (s : PlainPool) (old new from most end : ℕ) (extents : List Extent) → from < most → from < 16777216
        → IsPage (piece_from from (entries (volume_slots s old))) (piece_from from (entries (volume_slots s new))) from most extents end → from < end }
    ensures upward { (s : PlainPool) (id from most end : ℕ) (extents : List Extent) → from < most → from < 16777216
        → IsPage [] (piece_from from (entries (volume_slots s id))) from most extents end → from < end }
    ensures within { (old new : List (ℕ × ℕ)) (from most end : ℕ) (extents : List Extent) → IsPage old new from most extents end → end ≤ most }
{}

/// What the pages of a delta tell, one behind the other, of volumes that stay as they are, joined where their runs meet, are the runs of the delta: so far as they have come, and of
/// the whole where they have come to the new volume's end.
pub fn pages_join()
    ensures so_far { (s : PlainPool) (old new from mid end : ℕ) (es fs : List Extent) → from ≤ mid → mid ≤ end
        → AreRunsOf es (λ block. (from ≤ block) × (block < mid) × (slot_at s new block ≢ slot_at s old block))
        → AreRunsOf fs (λ block. (mid ≤ block) × (block < end) × (slot_at s new block ≢ slot_at s old block))
        → AreRunsOf (joined es fs) (λ block. (from ≤ block) × (block < end) × (slot_at s new block ≢ slot_at s old block)) }
    ensures whole { (s : PlainPool) (old new : ℕ) (es : List Extent) → IsSome (volume_size s old) → IsSome (volume_size s new)
        → AreRunsOf es (λ block. (0 ≤ block) × (block < volume_blocks s new) × (slot_at s new block ≢ slot_at s old block)) → IsDelta s old new es }
{}
