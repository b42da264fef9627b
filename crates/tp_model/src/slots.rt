//! The slots of a volume, and the call that lists them.
ghost use Rattle.std.specs.Prelude.{◌≡◌, ◌<◌, MatchResult};
ghost use Rattle.tp_model.specs.Calls.{Listed, Refused, Walk};
ghost use Rattle.tp_model.specs.Clauses.{Meets};
ghost use Rattle.tp_model.specs.Slots.{listed};

use crate::numbers::{DevId, Pb, Vb};
use crate::refusal::Refusal;
use crate::volumes::Volumes;
use arrayvec::ArrayVec;
use std::marker::Model;

/// As many slots as one call of a walk lists at most.
pub const MOST_SLOTS: usize = 252;

/// Slots of a volume in the order of their blocks, as many as one call lists at most.
pub type Slots = ArrayVec<Slot, MOST_SLOTS>;

/// A virtual block that has a data block.
#[derive(Clone, Copy, Debug, PartialEq, Eq)]
pub struct Slot {
    block: Vb,
    place: Pb,
}

impl Model for Slot {
    ghost use Rattle.std.specs.Prelude.{◌<◌};
    ghost use Rattle.tp_model.specs.Slots.{BlockSlot};

    ghost Value = { BlockSlot };

    ghost view = { λ s. record { block = s.block; place = s.place } };

    ghost invariant = { λ s. (s.block < 16777216) × (s.place < 1048576) };

    ghost inverse = { λ s. record { block = s.block; place = s.place } };
}

impl Slot {
    pub fn new(block: Vb, place: Pb) -> Slot
        ensures { result ≡ record { block = block; place = place } }
    {
        let _ = (block.number(), place.number());
        Slot { block, place }
    }

    /// The virtual block.
    pub fn block(self) -> Vb
        ensures value { result ≡ self.block }
        ensures below { self.block < 16777216 }
    {
        self.block
    }

    /// The data block that it has.
    pub fn place(self) -> Pb
        ensures value { result ≡ self.place }
        ensures below { self.place < 1048576 }
    {
        self.place
    }
}

impl Default for Slot {
    fn default() -> Slot {
        Slot::new(Vb::new(0), Pb::new(0))
    }
}

/// Volumes of which the slots can be listed.
pub trait Walked: Volumes {
    /// Lists the slots of a volume with blocks from `from` on, in the order of their blocks, each with the number of its data block. It lists 252 where
    /// there are so many, and the next call asks for those from behind the last one; where it lists fewer, there are no more. It writes nothing and takes
    /// no memory. Behind an `Err` `slots` may hold anything.
    ///
    /// Refused by `Failed`, `NoSuchDevice`, `Fault` or `Damaged`.
    fn walk(&mut self, id: DevId, from: Vb, slots: &mut Slots) -> Result<(), Refusal>
        ensures { MatchResult result
            (λ _. Meets Self.view self.old self.new (Walk id from) (Listed (listed slots.new.items)))
            (λ reason. Meets Self.view self.old self.new (Walk id from) (Refused reason)) };
}
