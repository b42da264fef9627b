//! A law of the definitions: the contract of a function that does nothing.
ghost use Rattle.std.specs.Prelude.{◌≡◌, List, Result};
ghost use Rattle.tp_model.specs.declared.refusal.Refusal.{Refusal};
ghost use Rattle.tp_model.specs.Sectors.{Sector};
ghost use Rattle.tp_layout.specs.declared.superblock.Superblock.{Superblock};
ghost use Rattle.tp_image.specs.Slots.{Chooses};

/// An image's slots give one answer.
pub fn one_choice()
    ensures { (image : List Sector) (a b : Result Superblock Refusal) → Chooses image a → Chooses image b → a ≡ b }
{}
