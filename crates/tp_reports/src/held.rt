//! Whether a pool holds a mapping.
ghost use Rattle.std.specs.Prelude.{◌≡◌, ◌==◌, IfErr, IfOk, not};
ghost use Rattle.tp_model.specs.Pool.{PlainPool};
ghost use Rattle.tp_listings.specs.Looks.{LooksOver, ShowsStill};
ghost use Rattle.tp_listings.specs.Refusing.{IsRefusalOfAll};

use tp_disk::Disk;
use tp_meta::Metadata;
use tp_model::{DevId, Refusal, Walked};
use tp_served::Served;

/// Volumes of which is known whether a mapping of them is held.
pub trait HoldsMapping: Walked {
    /// Whether a mapping is held. It writes nothing.
    ///
    /// Refused by `Failed`, `Fault` or `Damaged`.
    fn is_held(&mut self) -> Result<bool, Refusal>
        ensures looks { LooksOver Self.view self.old self.new result }
        ensures still { ShowsStill Self.view self.old self.new }
        ensures refused { IfErr result (λ reason. (s : PlainPool) → Self.view.shows self.old s → IsRefusalOfAll s reason) }
        ensures told { IfOk result (λ held. (s : PlainPool) → Self.view.shows self.old s → held ≡ not (s.held_root == 0)) };
}

impl<D: Disk + Drop, M: Metadata + Drop> HoldsMapping for Served<D, M> {
    // A read of no sectors of the mapping tells.
    fn is_held(&mut self) -> Result<bool, Refusal> {
        match self.held_read(DevId::new(0), 0, &mut []) {
            Ok(()) => Ok(true),
            Err(reason) => match reason {
                Refusal::NoSuchDevice => Ok(true),
                Refusal::NoHeldRoot => Ok(false),
                _ => Err(reason),
            },
        }
    }
}
