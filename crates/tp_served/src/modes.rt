//! Pools on caches that are only read, and pools that want a check.
ghost use Rattle.std.specs.Prelude.{◌≡◌, ◌≢◌, ◌⊎◌, ◌+◌, ◌<◌, ◌≤◌, [], Err, IfErr, IfOk, IsTrue, Ok, OnOk, false, not};
ghost use Rattle.tp_model.specs.Geometry.{Geometry};
ghost use Rattle.tp_model.specs.Pool.{PlainPool};
ghost use Rattle.tp_model.specs.declared.mode.Mode.TheVariants as mode;
ghost use Rattle.tp_model.specs.Refusals.{is_fault, is_fault_refusal};
ghost use Rattle.tp_model.specs.Disk.{FaultHasCause, IsSameDisk, IsSettled, after_read, seen};
ghost use Rattle.tp_model.specs.DiskStops.{LeavesOnly};
ghost use Rattle.tp_image.specs.Stands as images;
ghost use Rattle.tp_stored.specs.Contents.{Contents, HoldsContents};
ghost use Rattle.tp_meta.specs.Opening.{IsUnopened};
ghost use Rattle.tp_meta.specs.Standing.{StandsFor, changed_of, geometry_of};
ghost use Rattle.tp_pool.specs.Checked.{IsClearing, cleared, read_only};
ghost use Rattle.tp_pool.specs.Held.{IsPool, shows};
ghost use Rattle.tp_served.specs.Served.{IsAtStart, on_cache};

use crate::opening::{Room, on_caches};
use crate::served::Served;
use std::alloc::Global;
use tp_cache::ReadCache;
use tp_disk::Disk;
use tp_meta::Meta;
use tp_model::Refusal;
use tp_pool::Pool;

impl<D: Disk + Drop> Served<ReadCache<D>, Meta> {
    /// The pool of the last commit of a disk as one that is only read, whether it wants a check or not; or a refusal, as `open` gives it,
    /// with the disk handed back. It writes nothing; nor do flushing and closing it, which call nothing of the disk.
    pub fn open_read_only(
        alloc: Global,
        disk: D,
        room: Room,
    ) -> Result<Served<ReadCache<D>, Meta>, (Refusal, D)>
        ensures start { IfOk result (λ served. IsAtStart geometry_of served room.changed (D.state disk)) }
        ensures shows { IfOk result (λ served. IsTrue (D.state disk).is_honest → IsSettled (D.state disk).cells
            → (g : Geometry) (s : PlainPool) → IsPool g (seen (D.state disk).cells) → images.StandsFor (seen (D.state disk).cells) s
            → shows geometry_of StandsFor (on_cache served) (read_only s)) }
        ensures mode { IfOk result (λ served. served.besides.mode ≡ mode.ReadOnly) }
        ensures holders { IfOk result (λ served. served.besides.holders ≡ []) }
        ensures unchanged { IfOk result (λ served. changed_of served.besides.metadata ≡ false) }
        ensures why { IfErr result (λ back. back.0 ≢ Refusal.Fault → back.0 ≢ Refusal.Memory → IsTrue (D.state disk).is_honest → IsUnopened (seen (D.state disk).cells) back.0) }
        // The image of a commit is opened, where the disk and the memory allow it.
        ensures refused { IfErr result (λ back. back.0 ≢ Refusal.Fault → back.0 ≢ Refusal.Memory → IsTrue (D.state disk).is_honest
            → (g : Geometry) (c : Contents) → HoldsContents g c (seen (D.state disk).cells) → ⊥) }
        ensures back { IfErr result (λ back. D.state back.1 ≡ after_read (not (is_fault_refusal back.0)) (D.state disk)) }
    {
        let pool = match Pool::open_read_only(alloc, disk) {
            Ok(pool) => pool,
            Err(back) => return Err(back),
        };
        on_caches(alloc, pool, room)
    }

    /// Keeps the pool of a disk as it is, but that it wants no check from then on: Ok, or a refusal as `open` gives it, or `Fault`. It takes no
    /// memory for caches.
    ///
    /// It is a commit, which flushes twice; where the pool wants no check it flushes once and writes nothing. A stop at any moment leaves
    /// the pool with its flag or without it.
    pub fn clear_needs_check(alloc: Global, disk: &mut D) -> Result<(), Refusal>
        ensures cleared { OnOk result (IsTrue (D.state disk.old).is_honest → IsSettled (D.state disk.old).cells
            → (g : Geometry) (s : PlainPool) → IsPool g (seen (D.state disk.old).cells) → images.StandsFor (seen (D.state disk.old).cells) s
            → IsPool g (seen (D.state disk.new).cells) × images.StandsFor (seen (D.state disk.new).cells) (cleared s)) }
        ensures settled { OnOk result (IsSettled (D.state disk.new).cells) }
        ensures any_moment { IsTrue (D.state disk.old).is_honest → IsSettled (D.state disk.old).cells
            → (g : Geometry) (s : PlainPool) → IsPool g (seen (D.state disk.old).cells) → images.StandsFor (seen (D.state disk.old).cells) s
            → LeavesOnly (D.state disk.old) (D.state disk.new) (IsClearing g s) }
        ensures refused { IfErr result (λ refusal. refusal ≢ Refusal.Fault → refusal ≢ Refusal.Memory → IsTrue (D.state disk.old).is_honest
            → IsUnopened (seen (D.state disk.old).cells) refusal
            × ((g : Geometry) (c : Contents) → HoldsContents g c (seen (D.state disk.old).cells) → ⊥)) }
        ensures untouched { IfErr result (λ refusal. refusal ≢ Refusal.Fault → D.state disk.new ≡ D.state disk.old) }
        // One flush where the pool wants no check.
        ensures flushed { OnOk result (IsTrue (D.state disk.old).is_honest → IsSettled (D.state disk.old).cells
            → (g : Geometry) (s : PlainPool) → IsPool g (seen (D.state disk.old).cells) → images.StandsFor (seen (D.state disk.old).cells) s
            → s.needs_check ≡ false → (D.state disk.new).flushes ≡ (D.state disk.old).flushes + 1) }
        ensures flushes { ((D.state disk.old).flushes ≤ (D.state disk.new).flushes) × ((D.state disk.new).flushes ≤ (D.state disk.old).flushes + 2) }
        ensures same_disk { IsSameDisk (D.state disk.old) (D.state disk.new) }
        ensures cause { FaultHasCause (is_fault result) (D.state disk.old) (D.state disk.new) }
    {
        Pool::clear_needs_check(alloc, disk)
    }
}
