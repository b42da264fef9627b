//! Worked examples: what the definitions say of small pools, as closed facts, each the contract of a function that
//! does nothing. The pools have blocks of two sectors, two blocks a volume and 2048 metadata blocks; their values
//! are short where a sector would be long. A definition that is changed to another meaning breaks one of them.
ghost use Rattle.std.specs.Prelude.{◌≡◌, ◌≤◌, ℕ, Bool, IsTrue, [], ◌∷◌, Some, None, codes, true, false};
ghost use Rattle.tp_model.specs.declared.refusal.NbdError.TheVariants.{Invalid, NoSpace};
ghost use Rattle.tp_model.specs.declared.refusal.Refusal.TheVariants.{BadSize, Busy, Exists, HeldRootExists, NoDataSpace, NoHeldRoot, NoMetadataSpace, NoSuchDevice, StaleTransactionId};
ghost use Rattle.std.specs.FinMap.{empty};
ghost use Rattle.tp_model.specs.Sectors.{Sector};
ghost use Rattle.tp_model.specs.Pool.{PlainPool, used, volume_sector};
ghost use Rattle.tp_model.specs.Status.{pool_line, volume_line};
ghost use Rattle.tp_model.specs.Calls.{Answer, CreateSnap, CreateThin, Delete, Done, Gave, Grow, HeldRead, Listed, Makes, Read, Refused, ReleaseMetadataSnap, ReserveMetadataSnap, SetTransactionId, Sized, Step, Takes, Trim, VolumeBlocks, Walk, Write, after_refusal, need, refusal_of, reply};
ghost use Rattle.tp_model.specs.PoolStops.{MayReopen};
ghost use Rattle.tp_plain.specs.Examples.{a, b, c, z, formatted, thin, thin_and_snapshot, across, wrote_across, full, snapped, overwrite, rewritten, shared_block, origin_written, both_written, trim, trimmed, zeroes, zeroed_with_hole, zeroed_whole, nearly_full, sevened, kept_own, overwritten, found_new, on_wire, grown_own, shows_old_data, as_large, held_own, reserved, written_since, written_in_place, released};

pub fn fresh_status()
    ensures { pool_line formatted ≡ codes "0 9/2048 0/4 - rw no_discard_passdown error_if_no_space - 512" }
{}

/// A snapshot shares its origin's root, so it takes no metadata block.
pub fn create_and_snapshot_status()
    ensures created { Step formatted (CreateThin 0) Done thin }
    ensures line { pool_line thin ≡ codes "0 10/2048 0/4 - rw no_discard_passdown error_if_no_space - 512" }
    ensures volume_line { volume_line thin 0 ≡ codes "0 -" }
    ensures snapped { Step thin (CreateSnap 1 0) Done thin_and_snapshot }
    ensures same_line { pool_line thin_and_snapshot ≡ codes "0 10/2048 0/4 - rw no_discard_passdown error_if_no_space - 512" }
{}

/// The origin is looked for before the new id.
pub fn snapshot_refusals()
    ensures taken { refusal_of thin (CreateThin 0) ≡ Some Exists }
    ensures of_itself { refusal_of thin (CreateSnap 0 0) ≡ Some Exists }
    ensures of_none { refusal_of thin (CreateSnap 0 1) ≡ Some NoSuchDevice }
{}

/// A write of two sectors across the end of a block takes two data blocks, whose rest is zero.
pub fn write_across_blocks()
    ensures need { need thin across 0 ≡ 2 }
    ensures written { Step thin across Done wrote_across }
    ensures read { reply wrote_across (Read 0 0 4) ≡ Gave (z ∷ a ∷ a ∷ z ∷ []) }
    ensures line { pool_line wrote_across ≡ codes "0 10/2048 2/4 - rw no_discard_passdown error_if_no_space - 512" }
    ensures volume_line { volume_line wrote_across 0 ≡ codes "4 3" }
{}

/// A snapshot's origin in a full pool has no room for a copy, until the snapshot is gone. The snapshot takes three metadata blocks at most, and its
/// removal none.
pub fn full_pool_and_snapshot()
    ensures line { pool_line full ≡ codes "0 10/2048 2/2 - out_of_data_space no_discard_passdown error_if_no_space - 512" }
    ensures snapped { Step full (CreateSnap 1 0) Done snapped }
    ensures takes_three { (n : ℕ) → Makes full (CreateSnap 1 0) (record snapped { meta_used = n }) → n ≤ 13 }
    ensures used { used snapped ≡ 2 }
    ensures refused { Step snapped overwrite (Refused NoDataSpace) snapped }
    ensures deleted { Step snapped (Delete 1) Done full }
    ensures takes_none { (n : ℕ) → Makes snapped (Delete 1) (record full { meta_used = n }) → n ≤ 10 }
    ensures need { need full overwrite 0 ≡ 0 }
    ensures written { Step full overwrite Done rewritten }
    ensures same_line { pool_line rewritten ≡ codes "0 10/2048 2/2 - out_of_data_space no_discard_passdown error_if_no_space - 512" }
{}

/// A shared block is copied by the first side that writes, and is the other side's own then.
pub fn shared_block_written_on_both_sides()
    ensures need { need shared_block overwrite 0 ≡ 1 }
    ensures origin { Step shared_block overwrite Done origin_written }
    ensures line { pool_line origin_written ≡ codes "0 11/2048 2/2 - out_of_data_space no_discard_passdown error_if_no_space - 512" }
    ensures snapshot_keeps { reply origin_written (Read 1 0 4) ≡ Gave (a ∷ a ∷ z ∷ z ∷ []) }
    ensures no_need { need origin_written (Write 1 0 (c ∷ c ∷ []) false) 1 ≡ 0 }
    ensures snapshot { Step origin_written (Write 1 0 (c ∷ c ∷ []) false) Done both_written }
    ensures same_line { pool_line both_written ≡ codes "0 11/2048 2/2 - out_of_data_space no_discard_passdown error_if_no_space - 512" }
{}

/// A trim from the middle of a block leaves that block and unmaps the next.
pub fn trim_partly_covered()
    ensures trimmed { Step full trim Done trimmed }
    ensures volume_line { volume_line trimmed 0 ≡ codes "2 1" }
{}

/// Zeros over a whole block leave a hole, unless the request asks for none.
pub fn write_zeroes_with_and_without_hole()
    ensures hole { Step full (zeroes false) Done zeroed_with_hole }
    ensures hole_line { volume_line zeroed_with_hole 0 ≡ codes "2 1" }
    ensures hole_used { used zeroed_with_hole ≡ 1 }
    ensures whole { Step full (zeroes true) Done zeroed_whole }
    ensures whole_line { volume_line zeroed_whole 0 ≡ codes "4 3" }
    ensures whole_used { used zeroed_whole ≡ 2 }
{}

/// Where no slot changes, no metadata block is taken or freed: not by a write in place, nor by a trim of blocks that have no data block.
pub fn requests_that_change_no_slot()
    ensures in_place { (n : ℕ) → Step full overwrite Done (record rewritten { meta_used = n }) → n ≡ 10 }
    ensures unmapped { (n : ℕ) → Step thin (Trim 0 0 4 false) Done (record thin { meta_used = n }) → n ≡ 10 }
{}

/// With 511 free metadata blocks a creation is refused, and the pool is read-only from then on; with 512 it is not.
pub fn metadata_runs_out()
    ensures refused { refusal_of nearly_full (CreateThin 0) ≡ Some NoMetadataSpace }
    ensures line { pool_line (after_refusal NoMetadataSpace nearly_full) ≡ codes "0 1537/2048 0/4 - ro no_discard_passdown error_if_no_space needs_check 512" }
    ensures enough { refusal_of (record formatted { meta_used = 1536 }) (CreateThin 0) ≡ None }
{}

pub fn transaction_id()
    ensures set { Step formatted (SetTransactionId 0 7) Done sevened }
    ensures again { refusal_of sevened (SetTransactionId 0 7) ≡ Some StaleTransactionId }
    ensures line { pool_line sevened ≡ codes "7 9/2048 0/4 - rw no_discard_passdown error_if_no_space - 512" }
{}

/// After a write in place without a flush, one sector may be new and the next one old. A sector of a block that was
/// shared in the state that was kept has its value there, whatever was written since.
pub fn stop_before_any_flush()
    ensures own { MayReopen kept_own overwritten found_new }
    ensures shared { (P : PlainPool) (given : ℕ → ℕ → Sector → Bool)
        → MayReopen shared_block (λ id k x. IsTrue (given id k x)) P → volume_sector P 0 0 ≡ Some a }
{}

/// A volume grows from two blocks to four: what it has stays, and what comes is zero and has no data block.
pub fn volume_grows()
    ensures grown { Step kept_own (Grow 0 4) Done grown_own }
    ensures blocks { reply grown_own (VolumeBlocks 0) ≡ Sized 4 }
    ensures read { reply grown_own (Read 0 2 6) ≡ Gave (z ∷ z ∷ z ∷ z ∷ z ∷ z ∷ []) }
    ensures line { volume_line grown_own 0 ≡ codes "2 1" }
    ensures no_old_data { Makes kept_own (Grow 0 4) shows_old_data → ⊥ }
    ensures same_size { (n : ℕ) → Step kept_own (Grow 0 2) Done (as_large n) → n ≡ 10 }
{}

/// A walk lists the slots of a volume from a block on, each block with its label, and none where there is none.
pub fn slots_are_walked()
    ensures all { reply zeroed_whole (Walk 0 0) ≡ Listed ((0, 0) ∷ (1, 1) ∷ []) }
    ensures later { reply zeroed_whole (Walk 0 1) ≡ Listed ((1, 1) ∷ []) }
    ensures none { reply zeroed_with_hole (Walk 0 1) ≡ Listed [] }
{}

/// The volume is looked for first, then its holders, then the size.
pub fn growth_refusals()
    ensures absent { refusal_of held_own (Grow 1 4) ≡ Some NoSuchDevice }
    ensures held { refusal_of held_own (Grow 0 1) ≡ Some Busy }
    ensures less { refusal_of kept_own (Grow 0 1) ≡ Some BadSize }
    ensures more { refusal_of kept_own (Grow 0 16777217) ≡ Some BadSize }
    ensures most { refusal_of kept_own (Grow 0 16777216) ≡ None }
    ensures no_room { refusal_of (record kept_own { meta_used = 1537 }) (Grow 0 2) ≡ Some NoMetadataSpace }
{}

/// The whole mapping is held: what is written since takes a block of its own, and the held copy reads as it was. A release leaves the
/// volumes as they are, and frees what only the copy had.
pub fn held_metadata_snapshot()
    ensures reserves { Step kept_own ReserveMetadataSnap Done reserved }
    ensures line { pool_line reserved ≡ codes "0 10/2048 1/4 8 rw no_discard_passdown error_if_no_space - 512" }
    ensures writes { Step reserved overwrite Done written_since }
    ensures read { reply written_since (Read 0 0 4) ≡ Gave (b ∷ b ∷ z ∷ z ∷ []) }
    ensures held { reply written_since (HeldRead 0 0 4) ≡ Gave (a ∷ a ∷ z ∷ z ∷ []) }
    ensures both_used { used written_since ≡ 2 }
    ensures not_in_place { Makes reserved overwrite written_in_place → ⊥ }
    // What is held of a volume is not gone with it, whatever the removal is answered.
    ensures left { (answer : Answer) (made : PlainPool) → Takes reserved (Delete 0) answer made (record reserved { volumes = empty }) → ⊥ }
    ensures releases { Step written_since ReleaseMetadataSnap Done released }
    ensures one_used { used released ≡ 1 }
{}

/// One root is held at a time. While it is, a removal may take metadata blocks, so it wants 256 free ones.
pub fn held_root_refusals()
    ensures again { refusal_of reserved ReserveMetadataSnap ≡ Some HeldRootExists }
    ensures no_room { refusal_of (record kept_own { meta_used = 1537 }) ReserveMetadataSnap ≡ Some NoMetadataSpace }
    ensures none { refusal_of kept_own ReleaseMetadataSnap ≡ Some NoHeldRoot }
    ensures full { refusal_of (record reserved { meta_used = 2048 }) ReleaseMetadataSnap ≡ None }
    ensures not_held { refusal_of kept_own (HeldRead 0 0 1) ≡ Some NoHeldRoot }
    ensures no_copy { refusal_of reserved (HeldRead 1 0 1) ≡ Some NoSuchDevice }
    ensures removal { refusal_of (record reserved { meta_used = 1793 }) (Delete 0) ≡ Some NoMetadataSpace }
    ensures enough { refusal_of (record reserved { meta_used = 1792 }) (Delete 0) ≡ None }
    ensures no_root { refusal_of (record kept_own { meta_used = 2048 }) (Delete 0) ≡ None }
{}

/// Requests to a volume of 1048576 bytes.
pub fn request_limits()
    ensures odd_offset { on_wire 1 511 512 ≡ Some Invalid }
    ensures write_at_end { on_wire 1 1048576 512 ≡ Some NoSpace }
    ensures read_at_end { on_wire 0 1048576 512 ≡ Some Invalid }
    ensures nothing_at_end { on_wire 0 1048576 0 ≡ None }
    ensures unknown { on_wire 5 0 0 ≡ Some Invalid }
{}
