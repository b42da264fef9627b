//! Laws of what a stop leaves, each the contract of a function that does nothing.
ghost use Rattle.std.specs.Prelude.{ℕ, ◌≡◌, ◌≢◌, ◌<◌, List, Some, false};
ghost use Rattle.std.specs.List.{AllByRecursion};
ghost use Rattle.tp_model.specs.Geometry.{Geometry};
ghost use Rattle.tp_model.specs.Sectors.{Sector};
ghost use Rattle.tp_model.specs.Pool.{PlainPool, hold_count};
ghost use Rattle.tp_model.specs.Calls.{Answer, Call, Sized, VolumeBlocks, holds_after, refusal_of};
ghost use Rattle.tp_model.specs.declared.refusal.Refusal.TheVariants.{NoMetadataSpace};
ghost use Rattle.tp_model.specs.Clauses.{Entry, Flushes, IsAnswered, IsOpened, IsTrace, Meets};
ghost use Rattle.tp_model.specs.Disk.{DiskState};
ghost use Rattle.tp_model.specs.DiskStops.{AfterStop, StoppedSince};
ghost use Rattle.tp_image.specs.Bound.{IsBounded};
ghost use Rattle.tp_image.specs.Stands.{StandsFor};
ghost use Rattle.tp_pool.specs.Bounds.{BoundLeavesRoom, IsNotShort};
ghost use Rattle.tp_pool.specs.Held.{HasUse, Held, IsPool, blocks_of_held, moment_of};
ghost use Rattle.tp_holders.specs.Holders.{blocks_held, holds_of};
ghost use Rattle.tp_pool.specs.AtMetadata.{AreLives, AreRuns, IsReopenedFrom, PoolCalled, PoolClosed, PoolRefused, served, shows, view};
ghost use Rattle.tp_pool.specs.Lives.{Life};

use tp_meta::Metadata;

/// Each image that a stop may leave of a pool holds the contents of a commit, also where the pool has failed. So `Pool::open` opens
/// it, where the disk and the memory allow it.
pub fn stops_leave_pools<M: Metadata>()
    // Between two calls.
    ensures at_rest { (h : Held M) (s : PlainPool) (image : List Sector) → shows M.Metadata h s → AfterStop h.disk.cells image
        → IsPool (M.geometry h.metadata) image }

    // At any moment of a call, whatever it answers.
    ensures in_call { (old new : Held M) (call : Call) (answer : Answer) (s : PlainPool) (image : List Sector)
        → PoolCalled M.Metadata old new call answer → shows M.Metadata old s → StoppedSince (moment_of old) new.disk image
        → IsPool (M.geometry old.metadata) image }

    // While it is closed, and on the disk that is handed back.
    ensures in_close { (old : Held M) (disk : DiskState) (answer : Answer) (s : PlainPool) (image : List Sector)
        → PoolClosed M.Metadata old disk answer → shows M.Metadata old s → StoppedSince (moment_of old) disk image
        → IsPool (M.geometry old.metadata) image }
{}

/// An image that holds the contents of a commit stands for one pool alone.
pub fn images_stand_for_one_pool()
    ensures { (image : List Sector) (P Q : PlainPool) → (g : Geometry) × IsPool g image → StandsFor image P → StandsFor image Q → P ≡ Q }
{}

/// Stopped at any moment and opened again, any number of times, the pool goes on as a plain pool does: from each opening to the next
/// stop its calls are a run of the plain pool that the image stood for, and the image that the stop leaves stands for one that
/// may be found after a stop in that run: a state not before the last answer that kept, but for sectors that were given a value since.
pub fn lives_are_runs<M: Metadata>()
    ensures { (image : List Sector) (s : PlainPool) (lives : List (Life M)) → (g : Geometry) × IsPool g image → StandsFor image s
        → AreLives M.Metadata image lives → AreRuns M.Metadata s lives }
{}

/// A pool that was opened from an image goes on from each plain pool that the image stands for, with nothing changed since the last commit.
pub fn opened_pools_go_on<M: Metadata>()
    ensures { (image : List Sector) (h : Held M) → IsReopenedFrom M.Metadata image h → M.changed h.metadata ≡ false
        → IsOpened (served M.Metadata) image h }
{}

/// A call of the pool is one of those who are served, where it keeps the geometry and holds are as they have to be. So a message may be
/// asked between the turns of sessions.
pub fn pool_calls_are_calls<M: Metadata>()
    ensures { (old new : Held M) (call : Call) (answer : Answer) → M.geometry new.metadata ≡ M.geometry old.metadata
        → holds_of new.holders ≡ holds_after (holds_of old.holders) call answer
        → ((id : ℕ) → 0 < hold_count (holds_of old.holders) id → 0 < hold_count (holds_of new.holders) id → blocks_held new.holders id ≡ blocks_held old.holders id)
        → ((id blocks : ℕ) → call ≡ VolumeBlocks id → answer ≡ Sized blocks → 0 < hold_count (holds_of old.holders) id → blocks ≡ blocks_of_held (M.geometry old.metadata) old.holders id)
        → PoolCalled M.Metadata old new call answer → IsAnswered (view M.Metadata) old new call answer
        → Flushes (served M.Metadata) old new call answer
        → Meets (served M.Metadata) old new call answer }
{}

/// At every moment at which no metadata root is held, no more metadata blocks are in use than the volumes may use: the fixed part, 1, one for every 31
/// volumes, and for each volume 1 and one for every 63 of its mapped blocks.
pub fn images_use_bounded_metadata<M: Metadata>()
    // Of each pool that is opened from the image of a commit.
    ensures images { (image : List Sector) (P : PlainPool) → (g : Geometry) × IsPool g image → StandsFor image P → P.held_root ≡ 0 → IsBounded P }

    // Of what a pool shows that has not failed.
    ensures shown { (h : Held M) (s : PlainPool) → shows M.Metadata h s → HasUse s }

    // Of what a stop leaves at any moment of a call, whatever it answers.
    ensures in_call { (old new : Held M) (call : Call) (answer : Answer) (s : PlainPool) (image : List Sector) (P : PlainPool)
        → PoolCalled M.Metadata old new call answer → shows M.Metadata old s → StoppedSince (moment_of old) new.disk image
        → StandsFor image P → P.held_root ≡ 0 → IsBounded P }
{}

/// Metadata room lasts to that bound: where no metadata root is held and it leaves as many blocks as a call wants, which are 512, and 256 for a
/// trim, the call is not refused for want of metadata room.
pub fn room_lasts_to_the_bound<M: Metadata>()
    // By no test of a plain pool.
    ensures tests { (s : PlainPool) (call : Call) → HasUse s → BoundLeavesRoom s call → refusal_of s call ≢ Some NoMetadataSpace }

    // By no call of a pool, whatever its disk does.
    ensures called { (old new : Held M) (s : PlainPool) (call : Call) → shows M.Metadata old s → BoundLeavesRoom s call
        → PoolRefused M.Metadata old new call NoMetadataSpace → ⊥ }

    // In no trace, at any place of it.
    ensures traced { (s : PlainPool) (trace : List Entry) (after : PlainPool) → HasUse s → IsTrace HasUse s trace after → AllByRecursion IsNotShort trace }
{}
