//! Blocks of the table over what the inner disk has of them.
ghost use Rattle.std.specs.Prelude.{◌≡◌, ℕ, ◌^◌, ◌+◌, ◌*◌, ◌/◌, ◌%◌, ◌<◌, ◌≤◌, ◌++◌, List, length, take, drop, slice_index_or, []};
ghost use Rattle.tp_model.specs.Sectors.{bytes_at};
ghost use Rattle.tp_model.specs.Disk.{Cell, IsWellFormed, seen};
ghost use Rattle.tp_cache.specs.Table.{IsKept, Tied, mixed_bytes, slot_of};

use crate::table::put_bytes;
use crate::{BLOCK, SECTOR};

/// Puts what the table has of the sectors from `at` on over what was read of them.
pub(crate) fn lay_over(held: &[u16], slots: &[[u8; BLOCK]], at: u64, out: &mut [u8])
    requires whole { length out.old % 512 ≡ 0 }
    requires few { at + length out.old / 512 ≤ 2 ^ 54 }
    requires inside { (block : ℕ) → slot_of held.now block ≤ length slots.now }
    ensures { (size : ℕ) (index owners : List ℕ) (outer inner : List Cell) → IsWellFormed size outer → IsWellFormed size inner → at + length out.old / 512 ≤ size → Tied index outer inner → IsKept index held.now owners slots.now outer
        → out.old ≡ bytes_at (seen inner) at (length out.old / 512) → out.new ≡ bytes_at (seen outer) at (length out.old / 512) }
{
    // Behind the blocks of the table it has nothing.
    if at / 8 >= held.len() as u64 {
        return;
    }
    for k in 0..out.len() / SECTOR {
        lay_sector(held, slots, at, k, out);
    }
}

// The same of one sector, which stands in `out` as number k.
fn lay_sector(held: &[u16], slots: &[[u8; BLOCK]], at: u64, k: usize, out: &mut [u8])
    requires whole { length out.old % 512 ≡ 0 }
    requires few { at + length out.old / 512 ≤ 2 ^ 54 }
    requires number { k < length out.old / 512 }
    requires inside { (block : ℕ) → slot_of held.now block ≤ length slots.now }
    ensures long { length out.new ≡ length out.old }
    ensures mixed { (size : ℕ) (index owners : List ℕ) (outer inner : List Cell) → IsWellFormed size outer → IsWellFormed size inner → at + length out.old / 512 ≤ size → Tied index outer inner → IsKept index held.now owners slots.now outer
        → out.old ≡ mixed_bytes outer inner at (length out.old / 512) k → out.new ≡ mixed_bytes outer inner at (length out.old / 512) (k + 1) }
{
    let sector = at + k as u64;
    let slot = slot_in(held, sector / 8);
    if slot == 0 {
        return;
    }
    let from = SECTOR * (sector % 8) as usize;
    put_bytes(out, SECTOR * k, &slots[slot - 1][from..from + SECTOR]);
}

/// The slot of a block, 0 for one that is not in the table.
pub(crate) fn slot_in(held: &[u16], block: u64) -> usize
    ensures { result ≡ slot_of held.now block }
{
    if block >= held.len() as u64 {
        return 0;
    }
    held[block as usize] as usize
}
