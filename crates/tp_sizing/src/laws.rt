//! Laws of the definitions, each the contract of a function that does nothing.
ghost use Rattle.std.specs.Prelude.{◌≡◌, ℕ, ◌≤◌, ◌<◌, Result};
ghost use Rattle.tp_model.specs.Geometry.{Geometry};
ghost use Rattle.tp_sizing.specs.Sizing.{IsAnswer, IsUnfit};
ghost use Rattle.tp_sizing.specs.declared.wanted.Unfit.{Unfit};
ghost use Rattle.tp_sizing.specs.declared.wanted.Unfit.TheVariants as unfits;
ghost use Rattle.tp_sizing.specs.declared.wanted.Wanted.{Wanted};

/// What is wanted has one answer. Of too many volumes 3 to 65535 fit.
pub fn sizes_are_determined()
    ensures answer { (w : Wanted) (one other : Result Geometry Unfit) → IsAnswer w one → IsAnswer w other → one ≡ other }
    ensures fit { (w : Wanted) (fit : ℕ) → IsUnfit w (unfits.TooMany fit) → (3 ≤ fit) × (fit < 65536) }
{}
