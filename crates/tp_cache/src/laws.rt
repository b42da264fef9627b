//! What a stop leaves of the disk under a cache, each law the contract of a function that does nothing.
ghost use Rattle.std.specs.Prelude.{◌≡◌, ◌+◌, ◌++◌, ℕ, List};
ghost use Rattle.tp_model.specs.Sectors.{Sector};
ghost use Rattle.tp_model.specs.Disk.{Cell};
ghost use Rattle.tp_model.specs.DiskStops.{AfterStop, LeavesOnly, SomeLeaves, StoppedSince, moment as moment_of, moments};
ghost use Rattle.tp_cache.specs.Line.{FlushedAlike, IsLine, Line, WentOn};

use tp_model::Claim;

/// Whatever a stop leaves of the inner disk, a stop may leave of the cache.
pub fn stops_of_a_cache<P: Claim>()
    // Now.
    ensures now { (line : Line) (image : List Sector) → IsLine line → AfterStop line.inner.cells image → AfterStop line.outer.cells image }

    // At some moment.
    ensures ever { (line : Line) (image : List Sector) → IsLine line → SomeLeaves (moments line.inner) image → StoppedSince 0 line.outer image }

    // From one moment to another.
    ensures between { (old new : Line) → IsLine old → IsLine new → WentOn old.under new.under → LeavesOnly old.outer new.outer P.claim
        → LeavesOnly old.inner new.inner P.claim }

    // The same of stops since a moment.
    ensures stopped { (old new : Line) → IsLine old → IsLine new → WentOn old.under new.under
        → (between : List (List Cell)) → moments new.outer ≡ between ++ moments old.outer
        → (image : List Sector) → StoppedSince (moment_of old.inner) new.inner image → StoppedSince (moment_of old.outer) new.outer image }

    // Where no call failed, the inner disk was flushed as often as the outer one.
    ensures flushes { (old new : Line) → FlushedAlike old new → new.outer.failures ≡ old.outer.failures
        → new.inner.flushes + old.outer.flushes ≡ new.outer.flushes + old.inner.flushes }

    // Time goes on.
    ensures joins { (a b c : Line) → WentOn a.under b.under → WentOn b.under c.under → WentOn a.under c.under }
{}
