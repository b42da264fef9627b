//! Laws of the definitions, each the contract of a function that does nothing.
ghost use Rattle.std.specs.Prelude.{◌≡◌, ℕ, ◌+◌, ◌<◌, ◌≤◌, true, List, [], ◌∷◌, replicate, Result, Ok, slice_index};
ghost use Rattle.tp_model.specs.declared.refusal.Refusal.{Refusal};
ghost use Rattle.tp_model.specs.Geometry.{Geometry, IsWithinLimits, count_blocks, fixed_part};
ghost use Rattle.tp_model.specs.Sectors.{Sector};
ghost use Rattle.tp_model.specs.Disk.{DiskState, after_flush, seen};
ghost use Rattle.tp_model.specs.DiskStops.{Leaves, LeavesOnly, LeavesOutside, SameOutside};
ghost use Rattle.tp_layout.specs.declared.counts.Part.{Part};
ghost use Rattle.tp_layout.specs.declared.superblock.SlotId.{SlotId};
ghost use Rattle.tp_layout.specs.declared.entry.Entry.{Entry};
ghost use Rattle.tp_layout.specs.declared.kind.TreeKind.{TreeKind};
ghost use Rattle.tp_layout.specs.declared.superblock.Superblock.{Superblock};
ghost use Rattle.tp_layout.specs.declared.superblock.Version.{Version};
ghost use Rattle.tp_layout.specs.Node.{NodeValue};
ghost use Rattle.tp_image.specs.Slots.{Chooses};
ghost use Rattle.tp_image.specs.Nodes.{HasEntry, IsMapped, IsNodeAt, LeadsTo};
ghost use Rattle.tp_image.specs.Bound.{metadata_bound};
ghost use Rattle.tp_image.specs.Stands.{StandsFor};
ghost use Rattle.tp_image.specs.Areas.{HoldsCounts, blocks_of, counts_sector, counts_sectors, counts_start};
ghost use Rattle.tp_image.specs.Counts.{AreReachable, data_count, metadata_count, metadata_use};
ghost use Rattle.tp_image.specs.Fresh.{IsFreshOf, empty_pool, fresh_counts, fresh_leaf, fresh_super};
ghost use Rattle.tp_image.specs.Examples.{HasDevices, HasNoCounts, HasOneBlock, HasRoot, example, far_block, late_key, no_entry, only_child, other_kind, small_record, two_nodes};
ghost use Rattle.tp_image.specs.Faults.{HasBadCount, HasBadMapped, HasBadNode, HasBadOrder, HasBadRecordSize, HasBadSuper, HasHalfEmpty, HasOutOfPlace};

/// One node stands in a block at most.
pub fn one_node_a_block()
    ensures { (image : List Sector) (b : ℕ) (n m : NodeValue) → IsNodeAt image b n → IsNodeAt image b m → n ≡ m }
{}

/// A path whose intervals hold a key is a path, to an entry of that key.
pub fn paths_by_intervals_are_paths()
    ensures path { (image : List Sector) (kind : TreeKind) (key b : ℕ) (e : Entry) → HasEntry image kind key b e → LeadsTo image kind b e }
    ensures key { (image : List Sector) (kind : TreeKind) (key b : ℕ) (e : Entry) → HasEntry image kind key b e → e.key ≡ key }
{}

/// An image holds one list of counts for a part in an area.
pub fn one_list_of_counts()
    ensures { (image : List Sector) (g : Geometry) (part : Part) (area : SlotId) (xs ys : List ℕ)
        → HoldsCounts image g part area xs → HoldsCounts image g part area ys → xs ≡ ys }
{}

/// A change of the counts of one part in one area leaves those of the other part and of the other area. All of them
/// lie in the fixed part, behind the superblocks.
pub fn counts_lie_apart()
    ensures other { (before image : List Sector) (g : Geometry) (part changed : Part) (area its : SlotId) (counts : List ℕ)
        → ((part ≡ changed) × (area ≡ its) → ⊥) → SameOutside (counts_sector g changed its) (counts_sectors g changed) before image
        → HoldsCounts before g part area counts → HoldsCounts image g part area counts }
    ensures fixed { (g : Geometry) (part : Part) (area : SlotId)
        → (2 ≤ counts_start g part area) × (counts_start g part area + count_blocks (blocks_of g part) ≤ fixed_part g) }
{}

/// What a stop leaves of the counts of one part in one area: what was flushed, and, while other counts are changed,
/// what there was.
pub fn counts_survive_stops()
    ensures flushed { (old new : DiskState) (g : Geometry) (part : Part) (area : SlotId) (counts : List ℕ)
        → HoldsCounts (seen old.cells) g part area counts → new ≡ after_flush true old
        → Leaves (λ image. HoldsCounts image g part area counts) new.cells }
    ensures other { (old new : DiskState) (g : Geometry) (part changed : Part) (area its : SlotId) (counts : List ℕ)
        → ((part ≡ changed) × (area ≡ its) → ⊥) → LeavesOutside (counts_sector g changed its) (counts_sectors g changed) old new
        → Leaves (λ image. HoldsCounts image g part area counts) old.cells
        → LeavesOnly old new (λ image. HoldsCounts image g part area counts) }
{}

/// The image of a pool just formatted stands for the pool without volumes, and the counts in its first area are the
/// true ones: those of the references that are in it.
pub fn fresh_image_stands_for_the_empty_pool()
    ensures stands { (g : Geometry) (image : List Sector) → IsWithinLimits g → IsFreshOf g image → StandsFor image (empty_pool g) }
    ensures chosen { (g : Geometry) (image : List Sector) → IsWithinLimits g → IsFreshOf g image → Chooses image (Ok (fresh_super g)) }
    ensures reachable { (g : Geometry) (image : List Sector) → IsWithinLimits g → IsFreshOf g image → AreReachable image (fixed_part g ∷ []) (fresh_leaf g ∷ []) }
    ensures counts { (g : Geometry) (b : ℕ) → IsWithinLimits g → b < g.metadata_blocks
        → slice_index (fresh_counts g Part.Metadata) b ≡ metadata_count g (fixed_part g ∷ []) (fresh_leaf g ∷ []) b }
    ensures data_counts { (g : Geometry) (p : ℕ) → p < g.data_blocks → slice_index (fresh_counts g Part.Data) p ≡ data_count (fresh_leaf g ∷ []) p }
{}

/// The bound on metadata in small pools.
pub fn metadata_bounds()
    ensures fresh { metadata_bound example [] ≡ 9 }
    ensures one_volume { metadata_bound example (16 ∷ []) ≡ 10 }
    ensures many_volumes { metadata_bound (record example { metadata_blocks = 1032 }) (replicate 495 0) ≡ 519 }
    ensures long_volume { metadata_bound example (300 ∷ []) ≡ 14 }
{}

/// A volume whose one block is mapped, and a snapshot that shares its root: the root is named twice, the data block
/// once, for a node that two parents share is one parent of its own children.
pub fn snapshot_shares_the_root()
    ensures volume { (image : List Sector) → HasOneBlock image → IsMapped image 8 0 3 2 }
    ensures snapshot { (image : List Sector) → HasOneBlock image → IsMapped image 8 7 3 2 }
    ensures reachable { (image : List Sector) → HasOneBlock image → AreReachable image (8 ∷ []) two_nodes }
    ensures root { metadata_count example (8 ∷ []) two_nodes 8 ≡ 1 }
    ensures shared_root { metadata_count example (8 ∷ []) two_nodes 9 ≡ 2 }
    ensures superblock { metadata_count example (8 ∷ []) two_nodes 0 ≡ 1 }
    ensures free { metadata_count example (8 ∷ []) two_nodes 10 ≡ 0 }
    ensures block { data_count two_nodes 2 ≡ 1 }
    ensures meta_used { metadata_use example (8 ∷ []) two_nodes ≡ 10 }
{}

/// One image for each fault: an empty one, volumes whose root is no good one in five ways, a record with a bad size, and counts that are all 0.
pub fn faults_of_small_images()
    ensures superblock { HasBadSuper [] }
    ensures node { (image : List Sector) (version : Version) → HasRoot other_kind image → HasBadNode image version example (8 ∷ []) }
    ensures order { (image : List Sector) → HasRoot late_key image → HasBadOrder image example (8 ∷ []) }
    ensures count { (image : List Sector) → HasNoCounts image → HasBadCount image (fresh_super example) }
    ensures place { (image : List Sector) → HasRoot far_block image → HasOutOfPlace image example (8 ∷ []) }
    ensures filling { (image : List Sector) → HasRoot only_child image → HasHalfEmpty image example (8 ∷ []) }
    ensures mapped { (image : List Sector) → HasRoot no_entry image → HasBadMapped image example (8 ∷ []) }
    // A size that no volume has is told as such in an image of version 2, and in one of version 1 as a byte that is to be zero.
    ensures size { (image : List Sector) → HasDevices small_record image → HasBadRecordSize image Version.OwnSizes example (8 ∷ []) }
    ensures nonzero { (image : List Sector) → HasDevices small_record image → HasBadNode image Version.OneSize example (8 ∷ []) }
    // The volume with one block and its snapshot have no fault.
    ensures none { (image : List Sector) → HasOneBlock image → (version : Version) → (HasBadNode image version example (8 ∷ []) → ⊥) × (HasBadOrder image example (8 ∷ []) → ⊥)
        × (HasOutOfPlace image example (8 ∷ []) → ⊥) × (HasHalfEmpty image example (8 ∷ []) → ⊥) × (HasBadMapped image example (8 ∷ []) → ⊥) × (HasBadRecordSize image version example (8 ∷ []) → ⊥) }
{}
