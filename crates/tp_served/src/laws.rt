//! Laws of a pool on caches, each the contract of a function that does nothing.
ghost use Rattle.tp_model.specs.Pool.{PlainPool};
ghost use Rattle.tp_model.specs.Calls.{Call, Refused};
ghost use Rattle.tp_model.specs.Clauses.{Called};
ghost use Rattle.tp_model.specs.declared.refusal.Refusal.TheVariants.{NoMetadataSpace};
ghost use Rattle.tp_pool.specs.Bounds.{BoundLeavesRoom};
ghost use Rattle.tp_pool.specs.AtMetadata.{shows};
ghost use Rattle.tp_served.specs.AtMetadata.{cached};
ghost use Rattle.tp_served.specs.Served.{Cached, on_cache};

use tp_meta::Metadata;

/// Metadata room lasts to the bound on what volumes may use, as that of a pool does: no call is refused for want of it where the bound leaves as
/// many blocks as the call wants, whatever the disk does.
pub fn room_on_caches_lasts<M: Metadata>()
    ensures { (old new : Cached M) (s : PlainPool) (call : Call) → shows M.Metadata (on_cache old) s → BoundLeavesRoom s call
        → Called (cached M.Metadata) old new call (Refused NoMetadataSpace) → ⊥ }
{}
