//! A look at the counts of several blocks at once, in both lists.
ghost use Rattle.std.specs.Prelude.{ℕ, ◌≡◌, ◌+◌, ◌<◌, ◌≤◌, ◌==◌, if◌then◌else◌, length, slice_index};
ghost use Rattle.std.specs.Int.{w64, trailing_zeros};

use std::simd::prelude::*;

/// So many blocks are looked at at once.
pub(crate) const LANES: usize = 16;

/// How many of the blocks from this one on come before the first that is zero in both lists: `LANES` where none of so
/// many is.
pub(crate) fn used_ahead(now: &[u32], kept: &[u32], from: usize) -> usize
    requires same { length kept.now ≡ length now.now }
    requires inside { from + LANES ≤ length now.now }
    ensures most { result ≤ 16 }
    ensures used { (b : ℕ) → from ≤ b → b < from + result → 0 < slice_index now.now b + slice_index kept.now b }
    ensures free { result < 16 → (slice_index now.now (from + result) ≡ 0) × (slice_index kept.now (from + result) ≡ 0) }
{
    let either = u32x16::from_slice(&now[from..]) | u32x16::from_slice(&kept[from..]);
    let zeros = either.simd_eq(u32x16::splat(0));
    first_set(zeros.to_bitmask())
}

// The lowest lane that is set, or `LANES` where none is.
fn first_set(mask: u64) -> usize
    ensures { result ≡ (if mask == 0 then 16 else trailing_zeros w64 mask) }
{
    if mask == 0 {
        return LANES;
    }
    mask.trailing_zeros() as usize
}
