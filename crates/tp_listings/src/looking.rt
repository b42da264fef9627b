//! The slots of a volume, one after another, by calls that list a piece of them each.
ghost use Rattle.std.specs.Prelude.{◌≡◌, ◌<◌, ◌≤◌, ◌&&◌, ℕ, Some, IfErr, IfOk, length, nat_le, slice_get};
ghost use Rattle.tp_model.specs.Pool.{PlainPool};
ghost use Rattle.tp_model.specs.Slots.{BlockSlot};
ghost use Rattle.tp_listings.specs.Looks.{LooksOver, ShowsStill};
ghost use Rattle.tp_listings.specs.Refusing.{IsRefusal};
ghost use Rattle.tp_listings.specs.Seeking.{IsFirst, IsUpTo, Reads};

use tp_model::{DevId, MOST_SLOTS, Refusal, Slot, Slots, Vb, Walked};

/// The most blocks of a volume: their numbers are below this one.
pub(crate) const MOST_VOLUME: u32 = 16_777_216;

/// The first place from `at` on of a slot whose block is not before `from`, or the end.
pub(crate) fn skip(slots: &[Slot], at: usize, from: u32) -> usize
    ensures below { (i : ℕ) (x : BlockSlot) → at ≤ i → i < result → slice_get slots.now i ≡ Some x → x.block < from }
    ensures later { (x : BlockSlot) → slice_get slots.now result ≡ Some x → from ≤ x.block }
{
    for i in at..slots.len() {
        if slots[i].block().number() >= from {
            return i;
        }
    }
    slots.len()
}

/// Whether all slots of a piece were passed, and there may be more.
fn is_used_up(slots: &[Slot], at: usize) -> bool
    ensures { result ≡ (nat_le 252 (length slots.now) && nat_le (length slots.now) at) }
{
    slots.len() >= MOST_SLOTS && at >= slots.len()
}

/// The slot at a place, if there is one.
pub(crate) fn slot_of(slots: &[Slot], at: usize) -> Option<Slot>
    ensures { result ≡ slice_get slots.now at }
{
    slots.get(at).copied()
}

/// A way through the slots of a volume.
#[derive(Drop)]
pub(crate) struct Cursor {
    id: DevId,
    // The piece that was read last.
    slots: Slots,
    // The slots before this place were passed.
    at: usize,
}

impl Cursor {
    /// The slots of a volume from block 0 on.
    ///
    /// Refused by `Failed`, `NoSuchDevice`, `Fault` or `Damaged`.
    pub(crate) fn begin<V: Walked>(pool: &mut V, id: DevId) -> Result<Cursor, Refusal>
        ensures looks { LooksOver V.view pool.old pool.new result }
        ensures still { ShowsStill V.view pool.old pool.new }
        ensures refused { IfErr result (λ reason. (s : PlainPool) → V.view.shows pool.old s → IsRefusal s id reason) }
        ensures reads { IfOk result (λ c. (s : PlainPool) → V.view.shows pool.old s → Reads s id 0 c.slots.items c.at) }
        ensures id { IfOk result (λ c. c.id ≡ id) }
    {
        let mut slots = Slots::new();
        pool.walk(id, Vb::new(0), &mut slots)?;
        Ok(Cursor { id, slots, at: 0 })
    }

    /// The first slot with block `from` or a later one, if there is one. Of what was asked for before, no block was a later one.
    ///
    /// Refused by `Failed`, `NoSuchDevice`, `Fault` or `Damaged`.
    pub(crate) fn first_from<V: Walked>(
        &mut self,
        pool: &mut V,
        from: u32,
    ) -> Result<Option<Slot>, Refusal>
        requires { from < 16777216 }
        ensures looks { LooksOver V.view pool.old pool.new result }
        ensures still { ShowsStill V.view pool.old pool.new }
        ensures refused { IfErr result (λ reason. (s : PlainPool) → V.view.shows pool.old s → IsRefusal s self.old.id reason) }
        ensures first { IfOk result (λ found. (s : PlainPool) (low : ℕ) → V.view.shows pool.old s → low ≤ from → Reads s self.old.id low self.old.slots.items self.old.at
            → IsFirst s self.old.id from found × Reads s self.old.id from self.new.slots.items self.new.at) }
        ensures later { IfOk result (λ found. IsUpTo found from) }
        ensures id { self.new.id ≡ self.old.id }
    {
        self.at = skip(&self.slots, self.at, from);
        if !is_used_up(&self.slots, self.at) {
            return Ok(slot_of(&self.slots, self.at));
        }
        pool.walk(self.id, Vb::new(from), &mut self.slots)?;
        // A pool that is not as it says may list blocks that are before it.
        self.at = skip(&self.slots, 0, from);
        Ok(slot_of(&self.slots, self.at))
    }
}
