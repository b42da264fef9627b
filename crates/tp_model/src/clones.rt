//! Volumes of which snapshots are made, and which are deleted.
ghost use Rattle.std.specs.Prelude.{MatchResult};
ghost use Rattle.tp_model.specs.Calls.{CreateSnap, Delete, Done, Refused};
ghost use Rattle.tp_model.specs.Clauses.{Meets};

use crate::numbers::DevId;
use crate::refusal::Refusal;
use crate::slots::Walked;

/// Volumes of which those who are served may have clones: a snapshot that is made for one, and deleted behind it.
pub trait Cloned: Walked {
    /// Creates a volume with the content that its origin has now, and keeps it.
    ///
    /// Refused by `Failed`, `ReadOnly`, `NoSuchDevice` (the origin), `Exists`, `TooManyDevices`, `NoMetadataSpace`, `Fault` or `Damaged`.
    fn create_snap(&mut self, id: DevId, origin: DevId) -> Result<(), Refusal>
        ensures { MatchResult result
            (λ _. Meets Self.view self.old self.new (CreateSnap id origin) Done)
            (λ reason. Meets Self.view self.old self.new (CreateSnap id origin) (Refused reason)) };

    /// Removes a volume that nobody holds, and keeps that.
    ///
    /// Refused by `Failed`, `ReadOnly`, `NoSuchDevice`, `Busy`, `NoMetadataSpace` (only while a metadata root is held), `Fault` or `Damaged`.
    fn delete(&mut self, id: DevId) -> Result<(), Refusal>
        ensures { MatchResult result
            (λ _. Meets Self.view self.old self.new (Delete id) Done)
            (λ reason. Meets Self.view self.old self.new (Delete id) (Refused reason)) };
}
