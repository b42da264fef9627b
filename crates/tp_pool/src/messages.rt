//! The messages to a pool: calls that each end in a commit.
//!
//! Each is made in two halves: the change, which leaves a pool that works in which nothing is kept yet, and a flush. Whoever has READs go on while the device
//! works makes the second half in parts (`begin_flush`).
ghost use Rattle.std.specs.Prelude.{◌≡◌, ◌⊎◌, ◌+◌, ◌^◌, ◌<◌, ◌≤◌, ℕ, Err, IfErr, IfOk, IfSome, IsSome, IsTrue, MatchOption, None, OnOk, Some, false, is_err, not, true};
ghost use Rattle.tp_model.specs.declared.mode.Mode.TheVariants as mode;
ghost use Rattle.tp_model.specs.Geometry.{sectors_of_image};
ghost use Rattle.tp_model.specs.Refusals.{is_fault};
ghost use Rattle.tp_counts.specs.StoreErrors as errors;
ghost use Rattle.tp_model.specs.Calls.{Call, CreateSnap, CreateThin, Delete, Grow, ReleaseMetadataSnap, ReserveMetadataSnap, SetTransactionId, ends_in_commit, is_failed, is_flush};
ghost use Rattle.tp_model.specs.Disk.{after_read};
ghost use Rattle.tp_model.specs.Pool.{PlainPool};
ghost use Rattle.tp_model.specs.Told.{IsToldSize, told_blocks};
ghost use Rattle.tp_sharing.specs.Volumes.{device_of, devices_in, resized, size_of};
ghost use Rattle.tp_mapping.specs.Mapping.{size_for};
ghost use Rattle.tp_stored.specs.Contents.{Contents};
ghost use Rattle.tp_meta.specs.Metadata.{IsAltered, StandsWith};
ghost use Rattle.tp_msg.specs.Asked.{call_of};
ghost use Rattle.tp_pool.specs.AtMetadata.{AnswersSo, FlushesSo, HasFlushed, IsBegun, IsMade, PoolAnswered, PoolBegun, shows};
ghost use Rattle.tp_pool.specs.Held.{Held, IsTried};
ghost use Rattle.tp_pool.specs.Unkept.{HasLeft, HasRested};
ghost use Rattle.tp_pool.specs.Messages.{CountsBlocks, RefusesGrown, RefusesNew, RefusesOld, SizedSo, TestedSo, blocks_of_new, create_call, grown_tests, misses_origin, new_tests, old_tests, size_verdict, with_new};

use crate::pool::{Pool, is_failed, is_read_only};
use crate::room::{holds_root, lacks_for_removal, lacks_metadata, reclaim, reclaim_metadata};
use tp_counts::StoreError;
use tp_disk::Disk;
use tp_holders::is_held;
use tp_meta::Metadata;
use tp_model::{DevId, Refusal};
use tp_msg::Message;

/// At most this many volumes.
const MOST_DEVICES: u32 = 65536;

/// At most this many blocks of a volume.
const MOST_OF_VOLUME: u64 = 16777216;

/// Adds a device: one without slots, or one with the slots that its origin has now.
fn add<D: Disk, M: Metadata>(
    disk: &mut D,
    metadata: &mut M,
    id: DevId,
    origin: &Option<DevId>,
) -> Result<(), StoreError>
    requires disk { sectors_of_image (M.geometry metadata.old) ≤ (D.state disk.old).size }
    requires room { 64 ≤ M.room metadata.old }
    ensures altered { IsAltered M.geometry M.stands M.room 64 metadata.old metadata.new (D.state disk.old) (D.state disk.new) result
        (λ P. (now kept : Contents) → M.stands metadata.old (D.state disk.old) now kept → device_of id now.volumes ≡ None → devices_in now.volumes < 65536
        → misses_origin origin.now now ≡ false → P now kept)
        (λ done now kept. ((meta_used : ℕ) × M.stands metadata.new (D.state disk.new) (with_new now id origin.now meta_used) kept) × (M.marks metadata.new ≡ M.marks metadata.old)) }
    ensures used { OnOk result ((now kept next last : Contents) → M.stands metadata.old (D.state disk.old) now kept → M.stands metadata.new (D.state disk.new) next last
        → device_of id now.volumes ≡ None → devices_in now.volumes < 65536 → misses_origin origin.now now ≡ false → CountsBlocks origin.now now.held_root
        → next.meta_used ≤ now.meta_used + blocks_of_new origin.now) }
{
    match origin {
        Some(origin) => metadata.snapshot(disk, *origin, id),
        None => metadata.create(disk, id),
    }
}

/// The tests of a volume that has `present` blocks and is to have so many. It tells how many it has.
fn test_size(is_busy: bool, present: u32, blocks: u64) -> Result<u32, Refusal>
    ensures { result ≡ size_verdict is_busy present blocks }
{
    if is_busy {
        Err(Refusal::Busy)
    } else if blocks < present as u64 || blocks > MOST_OF_VOLUME {
        Err(Refusal::BadSize)
    } else {
        Ok(present)
    }
}

/// Gives a volume that has `present` blocks so many. With as many as it has it changes nothing.
fn enlarge<D: Disk, M: Metadata>(
    disk: &mut D,
    metadata: &mut M,
    id: DevId,
    present: u32,
    blocks: u32,
) -> Result<(), StoreError>
    requires disk { sectors_of_image (M.geometry metadata.old) ≤ (D.state disk.old).size }
    requires room { 64 ≤ M.room metadata.old }
    requires more { present ≤ blocks }
    requires most { blocks ≤ 2 ^ 24 }
    ensures same { blocks ≡ present → (is_err result ≡ false) × (metadata.new ≡ metadata.old) × (D.state disk.new ≡ D.state disk.old) }
    ensures altered { (blocks ≡ present → ⊥) → IsAltered M.geometry M.stands M.room 64 metadata.old metadata.new (D.state disk.old) (D.state disk.new) result
        (λ P. (now kept : Contents) → M.stands metadata.old (D.state disk.old) now kept → IsSome (device_of id now.volumes) → IsToldSize (M.geometry metadata.old) (size_for (M.geometry metadata.old) blocks)
        → ((size : ℕ) → size_of id now.volumes ≡ Some size → told_blocks (M.geometry metadata.old) size ≤ blocks) → P now kept)
        (λ done now kept. StandsWith M.stands M.marks metadata.new (D.state disk.new) now kept (resized id (size_for (M.geometry metadata.old) blocks) now.volumes) (M.marks metadata.old)) }
    ensures used { (blocks ≡ present → ⊥) → OnOk result ((now kept next last : Contents) → M.stands metadata.old (D.state disk.old) now kept → M.stands metadata.new (D.state disk.new) next last
        → IsSome (device_of id now.volumes) → IsToldSize (M.geometry metadata.old) (size_for (M.geometry metadata.old) blocks)
        → ((size : ℕ) → size_of id now.volumes ≡ Some size → told_blocks (M.geometry metadata.old) size ≤ blocks) → now.held_root ≡ 0 → next.meta_used ≤ now.meta_used + 1) }
{
    if blocks == present {
        return Ok(());
    }
    metadata.grow(disk, id, blocks)
}

impl<D: Disk, M: Metadata> Pool<D, M> {
    /// Keeps what a message has made, where it is not answered yet.
    fn keep_made(&mut self, begun: Option<Result<(), Refusal>>) -> Result<(), Refusal>
        ensures made { (old : Held M) (call : Call) → ends_in_commit call ≡ true → is_flush call ≡ false → IsBegun M.Metadata old self.old call begun
            → IsMade M.Metadata old self.new call result }
        ensures flushed { MatchOption begun (self.old.mode ≡ mode.Writable → M.changed self.old.metadata ≡ false → OnOk result (self.new.disk.flushes ≡ self.old.disk.flushes + 1))
            (λ answer. result ≡ answer) }
        ensures held { self.new ≡ record self.old { disk = self.new.disk; metadata = self.new.metadata; mode = self.new.mode } }
        ensures geometry { M.geometry self.new.metadata ≡ M.geometry self.old.metadata }
    {
        match begun {
            Some(answer) => answer,
            None => self.flush(),
        }
    }

    /// Whether there is such an origin, if one is wanted.
    fn has_origin(&mut self, origin: &Option<DevId>) -> Result<bool, StoreError>
        ensures held { self.new ≡ record self.old { disk = after_read (not (errors.is_fault result)) self.old.disk } }
        ensures told { IfOk result (λ answer. (now kept : Contents) → M.stands self.old.metadata self.old.disk now kept → misses_origin origin.now now ≡ not answer) }
        ensures wanted { IfOk result (λ answer. answer ≡ false → IsSome origin.now) }
        ensures damaged { result ≡ Err StoreError.Damaged → (now kept : Contents) → M.stands self.old.metadata self.old.disk now kept → ⊥ }
        ensures low { IfSome origin.now (λ origin. origin < 2 ^ 24) }
    {
        match origin {
            Some(origin) => self.has(*origin),
            None => Ok(true),
        }
    }

    /// The tests of a new volume, but for those of the mode and of metadata room.
    fn test_new(&mut self, id: DevId, origin: &Option<DevId>) -> Result<(), Refusal>
        ensures held { self.new ≡ record self.old { disk = after_read (not (is_fault result)) self.old.disk } }
        ensures told { (now kept : Contents) → M.stands self.old.metadata self.old.disk now kept → TestedSo result (new_tests id origin.now now) }
        ensures damaged { result ≡ Err Refusal.Damaged → (now kept : Contents) → M.stands self.old.metadata self.old.disk now kept → ⊥ }
        ensures only { IfErr result (λ reason. RefusesNew origin.now reason) }
        ensures low { IfSome origin.now (λ origin. origin < 2 ^ 24) }
    {
        if !self.has_origin(origin)? {
            return Err(Refusal::NoSuchDevice);
        }
        if self.has(id)? {
            return Err(Refusal::Exists);
        }
        let devices = self.metadata.devices(&mut self.disk)?;
        if devices >= MOST_DEVICES {
            return Err(Refusal::TooManyDevices);
        }
        Ok(())
    }

    /// Creates a volume in a pool that works. Nothing is kept yet.
    fn try_create(&mut self, id: DevId, origin: &Option<DevId>) -> Result<(), Refusal>
        requires works { is_failed self.old.mode ≡ false }
        ensures called { PoolBegun M.Metadata self.old self.new (create_call id origin.now) result }
        ensures tried { IsTried self.old self.new (create_call id origin.now) result }
        ensures flushes { HasFlushed M.Metadata self.old self.new.disk (create_call id origin.now) }
        ensures changes { HasLeft M.changed self.old.metadata self.new.metadata result }
        ensures held { self.new ≡ record self.old { disk = self.new.disk; metadata = self.new.metadata; mode = self.new.mode } }
        ensures geometry { M.geometry self.new.metadata ≡ M.geometry self.old.metadata }
    {
        if is_read_only(self.mode) {
            return Err(Refusal::ReadOnly);
        }
        self.test_new(id, origin)?;
        if lacks_metadata(&self.metadata) {
            return self.refuse_for_room();
        }
        reclaim(&mut self.disk, &mut self.metadata, 0)?;
        add(&mut self.disk, &mut self.metadata, id, origin)?;
        Ok(())
    }

    /// Creates a volume, but for the commit behind it: its answer where that is all of it, and else None.
    fn begin_create(&mut self, id: DevId, origin: &Option<DevId>) -> Option<Result<(), Refusal>>
        ensures begun { IsBegun M.Metadata self.old self.new (create_call id origin.now) result }
        ensures held { self.new ≡ record self.old { disk = self.new.disk; metadata = self.new.metadata; mode = self.new.mode } }
        ensures geometry { M.geometry self.new.metadata ≡ M.geometry self.old.metadata }
    {
        if is_failed(self.mode) {
            return Some(Err(Refusal::Failed));
        }
        match self.try_create(id, origin) {
            Ok(()) => None,
            Err(reason) => Some(self.settle(Err(reason))),
        }
    }

    /// Creates a volume without data blocks, and keeps it. Where it is refused by `NoMetadataSpace`, the pool wants a check from then on and is read-only,
    /// which a commit keeps. Behind an Ok at most 8 metadata blocks more are in use.
    ///
    /// Refused by `Failed`, `ReadOnly`, `Exists`, `TooManyDevices`, `NoMetadataSpace` or `Fault`.
    pub fn create_thin(&mut self, id: DevId) -> Result<(), Refusal>
        ensures called { PoolAnswered M.Metadata self.old self.new (CreateThin id) result }
        ensures answered { AnswersSo M.Metadata self.old self.new (CreateThin id) result }
        ensures flushes { FlushesSo M.Metadata self.old self.new (CreateThin id) result }
        ensures held { self.new ≡ record self.old { disk = self.new.disk; metadata = self.new.metadata; mode = self.new.mode } }
        ensures geometry { M.geometry self.new.metadata ≡ M.geometry self.old.metadata }
    {
        let begun = self.begin_create(id, &None);
        self.keep_made(begun)
    }

    /// Creates a volume with the sectors that another one has now, and shares its data blocks, and keeps it. The origin may be held, and may be a snapshot
    /// itself. Where it is refused by `NoMetadataSpace`, the pool wants a check from then on and is read-only, which a commit keeps. Behind an Ok at most
    /// 3 metadata blocks more are in use, whatever the origin maps, where no metadata root is held.
    ///
    /// Refused by `Failed`, `ReadOnly`, `NoSuchDevice` (the origin), `Exists`, `TooManyDevices`, `NoMetadataSpace` or `Fault`.
    pub fn create_snap(&mut self, id: DevId, origin: DevId) -> Result<(), Refusal>
        ensures called { PoolAnswered M.Metadata self.old self.new (CreateSnap id origin) result }
        ensures answered { AnswersSo M.Metadata self.old self.new (CreateSnap id origin) result }
        ensures flushes { FlushesSo M.Metadata self.old self.new (CreateSnap id origin) result }
        ensures held { self.new ≡ record self.old { disk = self.new.disk; metadata = self.new.metadata; mode = self.new.mode } }
        ensures geometry { M.geometry self.new.metadata ≡ M.geometry self.old.metadata }
    {
        let begun = self.begin_create(id, &Some(origin));
        self.keep_made(begun)
    }

    /// The tests of the removal of a volume, but for that of the mode.
    fn test_old(&mut self, id: DevId) -> Result<(), Refusal>
        ensures held { self.new ≡ record self.old { disk = after_read (not (is_fault result)) self.old.disk } }
        ensures told { (now kept : Contents) → M.stands self.old.metadata self.old.disk now kept → TestedSo result (old_tests id self.old.holders now) }
        ensures damaged { result ≡ Err Refusal.Damaged → (now kept : Contents) → M.stands self.old.metadata self.old.disk now kept → ⊥ }
        ensures only { IfErr result (λ reason. RefusesOld reason) }
    {
        if !self.has(id)? {
            return Err(Refusal::NoSuchDevice);
        }
        if is_held(&self.holders, id) {
            return Err(Refusal::Busy);
        }
        Ok(())
    }

    /// Removes a volume from a pool that works. Nothing is kept yet.
    fn try_delete(&mut self, id: DevId) -> Result<(), Refusal>
        requires works { is_failed self.old.mode ≡ false }
        ensures called { PoolBegun M.Metadata self.old self.new (Delete id) result }
        ensures tried { IsTried self.old self.new (Delete id) result }
        ensures flushes { HasFlushed M.Metadata self.old self.new.disk (Delete id) }
        ensures changes { HasLeft M.changed self.old.metadata self.new.metadata result }
        ensures held { self.new ≡ record self.old { disk = self.new.disk; metadata = self.new.metadata; mode = self.new.mode } }
        ensures geometry { M.geometry self.new.metadata ≡ M.geometry self.old.metadata }
    {
        if is_read_only(self.mode) {
            return Err(Refusal::ReadOnly);
        }
        self.test_old(id)?;
        if lacks_for_removal(&self.metadata) {
            return self.refuse_for_room();
        }
        reclaim_metadata(&mut self.disk, &mut self.metadata)?;
        self.metadata.delete(&mut self.disk, id)?;
        Ok(())
    }

    /// Removes a volume, but for the commit behind it: its answer where that is all of it, and else None.
    fn begin_delete(&mut self, id: DevId) -> Option<Result<(), Refusal>>
        ensures begun { IsBegun M.Metadata self.old self.new (Delete id) result }
        ensures held { self.new ≡ record self.old { disk = self.new.disk; metadata = self.new.metadata; mode = self.new.mode } }
        ensures geometry { M.geometry self.new.metadata ≡ M.geometry self.old.metadata }
    {
        if is_failed(self.mode) {
            return Some(Err(Refusal::Failed));
        }
        match self.try_delete(id) {
            Ok(()) => None,
            Err(reason) => Some(self.settle(Err(reason))),
        }
    }

    /// Removes a volume that no session holds, and keeps that. Its data blocks are free again, but for those that other volumes or a held copy share with
    /// it. It is refused for want of room only while a metadata root is held and fewer than 256 metadata blocks are not in use: then the pool wants a
    /// check from then on and is read-only, which a commit keeps. Where no root is held, behind an Ok no more metadata blocks are in use.
    ///
    /// Refused by `Failed`, `ReadOnly`, `NoSuchDevice`, `Busy`, `NoMetadataSpace` or `Fault`.
    pub fn delete(&mut self, id: DevId) -> Result<(), Refusal>
        ensures called { PoolAnswered M.Metadata self.old self.new (Delete id) result }
        ensures answered { AnswersSo M.Metadata self.old self.new (Delete id) result }
        ensures flushes { FlushesSo M.Metadata self.old self.new (Delete id) result }
        ensures room { result ≡ Err Refusal.NoMetadataSpace → (s : PlainPool) → shows M.Metadata self.old s → s.held_root ≡ 0 → ⊥ }
        ensures held { self.new ≡ record self.old { disk = self.new.disk; metadata = self.new.metadata; mode = self.new.mode } }
        ensures geometry { M.geometry self.new.metadata ≡ M.geometry self.old.metadata }
    {
        let begun = self.begin_delete(id);
        self.keep_made(begun)
    }

    /// The tests of a volume that is to have so many blocks, but for those of the mode and of metadata room. It tells how many it has.
    fn test_grown(&mut self, id: DevId, blocks: u64) -> Result<u32, Refusal>
        ensures held { self.new ≡ record self.old { disk = after_read (not (is_fault result)) self.old.disk } }
        ensures told { (now kept : Contents) → M.stands self.old.metadata self.old.disk now kept
            → SizedSo (M.geometry self.old.metadata) id now result (grown_tests (M.geometry self.old.metadata) id blocks self.old.holders now) }
        ensures damaged { result ≡ Err Refusal.Damaged → (now kept : Contents) → M.stands self.old.metadata self.old.disk now kept → ⊥ }
        ensures only { IfErr result (λ reason. RefusesGrown reason) }
        ensures more { IfOk result (λ present. (present ≤ blocks) × (blocks ≤ 2 ^ 24)) }
    {
        let Some(present) = self.size(id)? else {
            return Err(Refusal::NoSuchDevice);
        };
        let is_busy = is_held(&self.holders, id);
        test_size(is_busy, present, blocks)
    }

    /// Gives a volume of a pool that works so many blocks. Nothing is kept yet.
    fn try_grow(&mut self, id: DevId, blocks: u64) -> Result<(), Refusal>
        requires works { is_failed self.old.mode ≡ false }
        ensures called { PoolBegun M.Metadata self.old self.new (Grow id blocks) result }
        ensures tried { IsTried self.old self.new (Grow id blocks) result }
        ensures flushes { HasFlushed M.Metadata self.old self.new.disk (Grow id blocks) }
        ensures changes { HasLeft M.changed self.old.metadata self.new.metadata result }
        ensures held { self.new ≡ record self.old { disk = self.new.disk; metadata = self.new.metadata; mode = self.new.mode } }
        ensures geometry { M.geometry self.new.metadata ≡ M.geometry self.old.metadata }
    {
        if is_read_only(self.mode) {
            return Err(Refusal::ReadOnly);
        }
        let present = self.test_grown(id, blocks)?;
        if lacks_metadata(&self.metadata) {
            return self.refuse_for_room();
        }
        // It takes no data block.
        let taken = 0;
        reclaim(&mut self.disk, &mut self.metadata, taken)?;
        enlarge(
            &mut self.disk,
            &mut self.metadata,
            id,
            present,
            blocks as u32,
        )?;
        Ok(())
    }

    /// Gives a volume so many blocks, but for the commit behind it: its answer where that is all of it, and else None.
    fn begin_grow(&mut self, id: DevId, blocks: u64) -> Option<Result<(), Refusal>>
        ensures begun { IsBegun M.Metadata self.old self.new (Grow id blocks) result }
        ensures held { self.new ≡ record self.old { disk = self.new.disk; metadata = self.new.metadata; mode = self.new.mode } }
        ensures geometry { M.geometry self.new.metadata ≡ M.geometry self.old.metadata }
    {
        if is_failed(self.mode) {
            return Some(Err(Refusal::Failed));
        }
        match self.try_grow(id, blocks) {
            Ok(()) => None,
            Err(reason) => Some(self.settle(Err(reason))),
        }
    }

    /// Gives a volume that nobody holds so many blocks, and keeps that. Those behind its old end have no data block; at its present size nothing changes.
    /// Where it is refused by `NoMetadataSpace`, the pool wants a check from then on and is read-only, which a commit keeps. Behind an Ok at most 1
    /// metadata block more is in use, where no metadata root is held.
    ///
    /// Refused by `Failed`, `ReadOnly`, `NoSuchDevice`, `Busy`, `BadSize` (fewer than it has, or more than 2^24), `NoMetadataSpace` or `Fault`.
    pub fn grow(&mut self, id: DevId, blocks: u64) -> Result<(), Refusal>
        ensures called { PoolAnswered M.Metadata self.old self.new (Grow id blocks) result }
        ensures answered { AnswersSo M.Metadata self.old self.new (Grow id blocks) result }
        ensures flushes { FlushesSo M.Metadata self.old self.new (Grow id blocks) result }
        ensures held { self.new ≡ record self.old { disk = self.new.disk; metadata = self.new.metadata; mode = self.new.mode } }
        ensures geometry { M.geometry self.new.metadata ≡ M.geometry self.old.metadata }
    {
        let begun = self.begin_grow(id, blocks);
        self.keep_made(begun)
    }

    /// Sets the transaction id of a pool that works. Nothing is kept yet.
    fn try_set_transaction_id(&mut self, current: u64, next: u64) -> Result<(), Refusal>
        requires works { is_failed self.old.mode ≡ false }
        ensures called { PoolBegun M.Metadata self.old self.new (SetTransactionId current next) result }
        ensures tried { IsTried self.old self.new (SetTransactionId current next) result }
        ensures flushes { HasFlushed M.Metadata self.old self.new.disk (SetTransactionId current next) }
        ensures changes { HasLeft M.changed self.old.metadata self.new.metadata result }
        ensures idle { current ≡ next → M.changed self.old.metadata ≡ false → (s : PlainPool) → shows M.Metadata self.old s
            → OnOk result (HasRested M.changed self.old self.new) }
        ensures held { self.new ≡ record self.old { disk = self.new.disk; metadata = self.new.metadata; mode = self.new.mode } }
        ensures geometry { M.geometry self.new.metadata ≡ M.geometry self.old.metadata }
    {
        if is_read_only(self.mode) {
            return Err(Refusal::ReadOnly);
        }
        let id = self.metadata.transaction_id();
        if id != current {
            return Err(Refusal::StaleTransactionId);
        }
        self.metadata.set_transaction_id(next);
        Ok(())
    }

    /// Sets the transaction id, but for the commit behind it: its answer where that is all of it, and else None.
    fn begin_set_transaction_id(&mut self, current: u64, next: u64) -> Option<Result<(), Refusal>>
        ensures begun { IsBegun M.Metadata self.old self.new (SetTransactionId current next) result }
        ensures idle { current ≡ next → M.changed self.old.metadata ≡ false → (s : PlainPool) → shows M.Metadata self.old s
            → MatchOption result (HasRested M.changed self.old self.new) (λ answer. IsTrue (is_err answer)) }
        ensures held { self.new ≡ record self.old { disk = self.new.disk; metadata = self.new.metadata; mode = self.new.mode } }
        ensures geometry { M.geometry self.new.metadata ≡ M.geometry self.old.metadata }
    {
        if is_failed(self.mode) {
            return Some(Err(Refusal::Failed));
        }
        match self.try_set_transaction_id(current, next) {
            Ok(()) => None,
            Err(reason) => Some(self.settle(Err(reason))),
        }
    }

    /// Sets the transaction id, where it is `current`, and keeps it. Where it stays and nothing has changed since the last commit, that is one flush.
    ///
    /// Refused by `Failed`, `ReadOnly`, `StaleTransactionId` or `Fault`.
    pub fn set_transaction_id(&mut self, current: u64, next: u64) -> Result<(), Refusal>
        ensures called { PoolAnswered M.Metadata self.old self.new (SetTransactionId current next) result }
        ensures answered { AnswersSo M.Metadata self.old self.new (SetTransactionId current next) result }
        ensures flushes { FlushesSo M.Metadata self.old self.new (SetTransactionId current next) result }
        ensures idle { current ≡ next → M.changed self.old.metadata ≡ false → (s : PlainPool) → shows M.Metadata self.old s
            → OnOk result (self.new.disk.flushes ≡ self.old.disk.flushes + 1) }
        ensures held { self.new ≡ record self.old { disk = self.new.disk; metadata = self.new.metadata; mode = self.new.mode } }
        ensures geometry { M.geometry self.new.metadata ≡ M.geometry self.old.metadata }
    {
        let begun = self.begin_set_transaction_id(current, next);
        self.keep_made(begun)
    }

    /// Holds the mapping of all volumes of a pool that works. Nothing is kept yet.
    fn try_reserve(&mut self) -> Result<(), Refusal>
        requires works { is_failed self.old.mode ≡ false }
        ensures called { PoolBegun M.Metadata self.old self.new ReserveMetadataSnap result }
        ensures tried { IsTried self.old self.new ReserveMetadataSnap result }
        ensures flushes { HasFlushed M.Metadata self.old self.new.disk ReserveMetadataSnap }
        ensures changes { HasLeft M.changed self.old.metadata self.new.metadata result }
        ensures held { self.new ≡ record self.old { disk = self.new.disk; metadata = self.new.metadata; mode = self.new.mode } }
        ensures geometry { M.geometry self.new.metadata ≡ M.geometry self.old.metadata }
    {
        if is_read_only(self.mode) {
            return Err(Refusal::ReadOnly);
        }
        if holds_root(&self.metadata) {
            return Err(Refusal::HeldRootExists);
        }
        if lacks_metadata(&self.metadata) {
            return self.refuse_for_room();
        }
        self.metadata.reserve()?;
        Ok(())
    }

    /// Holds the mapping of all volumes, but for the commit behind it: its answer where that is all of it, and else None.
    fn begin_reserve(&mut self) -> Option<Result<(), Refusal>>
        ensures begun { IsBegun M.Metadata self.old self.new ReserveMetadataSnap result }
        ensures held { self.new ≡ record self.old { disk = self.new.disk; metadata = self.new.metadata; mode = self.new.mode } }
        ensures geometry { M.geometry self.new.metadata ≡ M.geometry self.old.metadata }
    {
        if is_failed(self.mode) {
            return Some(Err(Refusal::Failed));
        }
        match self.try_reserve() {
            Ok(()) => None,
            Err(reason) => Some(self.settle(Err(reason))),
        }
    }

    /// Holds the mapping of all volumes as it is now, and keeps that. Until it is given up, what the volumes have now is read by `held_read`, whatever
    /// becomes of them. Where it is refused by `NoMetadataSpace`, the pool wants a check from then on and is read-only, which a commit keeps. Behind an Ok
    /// no more metadata blocks are in use.
    ///
    /// Refused by `Failed`, `ReadOnly`, `HeldRootExists` (one is held already), `NoMetadataSpace` or `Fault`.
    pub fn reserve_metadata_snap(&mut self) -> Result<(), Refusal>
        ensures called { PoolAnswered M.Metadata self.old self.new ReserveMetadataSnap result }
        ensures answered { AnswersSo M.Metadata self.old self.new ReserveMetadataSnap result }
        ensures flushes { FlushesSo M.Metadata self.old self.new ReserveMetadataSnap result }
        ensures held { self.new ≡ record self.old { disk = self.new.disk; metadata = self.new.metadata; mode = self.new.mode } }
        ensures geometry { M.geometry self.new.metadata ≡ M.geometry self.old.metadata }
    {
        let begun = self.begin_reserve();
        self.keep_made(begun)
    }

    /// Gives up what a pool that works holds of its mapping. Nothing is kept yet.
    fn try_release(&mut self) -> Result<(), Refusal>
        requires works { is_failed self.old.mode ≡ false }
        ensures called { PoolBegun M.Metadata self.old self.new ReleaseMetadataSnap result }
        ensures tried { IsTried self.old self.new ReleaseMetadataSnap result }
        ensures flushes { HasFlushed M.Metadata self.old self.new.disk ReleaseMetadataSnap }
        ensures changes { HasLeft M.changed self.old.metadata self.new.metadata result }
        ensures held { self.new ≡ record self.old { disk = self.new.disk; metadata = self.new.metadata; mode = self.new.mode } }
        ensures geometry { M.geometry self.new.metadata ≡ M.geometry self.old.metadata }
    {
        if is_read_only(self.mode) {
            return Err(Refusal::ReadOnly);
        }
        if !holds_root(&self.metadata) {
            return Err(Refusal::NoHeldRoot);
        }
        self.metadata.release(&mut self.disk)?;
        Ok(())
    }

    /// Gives up the mapping that is held, but for the commit behind it: its answer where that is all of it, and else None.
    fn begin_release(&mut self) -> Option<Result<(), Refusal>>
        ensures begun { IsBegun M.Metadata self.old self.new ReleaseMetadataSnap result }
        ensures held { self.new ≡ record self.old { disk = self.new.disk; metadata = self.new.metadata; mode = self.new.mode } }
        ensures geometry { M.geometry self.new.metadata ≡ M.geometry self.old.metadata }
    {
        if is_failed(self.mode) {
            return Some(Err(Refusal::Failed));
        }
        match self.try_release() {
            Ok(()) => None,
            Err(reason) => Some(self.settle(Err(reason))),
        }
    }

    /// Gives up the mapping that is held, and keeps that. What no volume has is free again. It is never refused for want of room, and behind an Ok no more
    /// metadata blocks are in use.
    ///
    /// Refused by `Failed`, `ReadOnly`, `NoHeldRoot` (none is held) or `Fault`.
    pub fn release_metadata_snap(&mut self) -> Result<(), Refusal>
        ensures called { PoolAnswered M.Metadata self.old self.new ReleaseMetadataSnap result }
        ensures answered { AnswersSo M.Metadata self.old self.new ReleaseMetadataSnap result }
        ensures flushes { FlushesSo M.Metadata self.old self.new ReleaseMetadataSnap result }
        ensures room { result ≡ Err Refusal.NoMetadataSpace → ⊥ }
        ensures held { self.new ≡ record self.old { disk = self.new.disk; metadata = self.new.metadata; mode = self.new.mode } }
        ensures geometry { M.geometry self.new.metadata ≡ M.geometry self.old.metadata }
    {
        let begun = self.begin_release();
        self.keep_made(begun)
    }

    /// Makes what a message asks for, but for the commit behind it: its answer where that is all of it, as where it is refused, and else None. Then nothing is
    /// kept yet, and a flush behind it, in parts or at once, makes it the message: its answer is the message's. READs of volumes that are held give what they gave before.
    pub fn change(&mut self, message: &Message) -> Option<Result<(), Refusal>>
        ensures begun { IsBegun M.Metadata self.old self.new (call_of message.now) result }
        ensures held { self.new ≡ record self.old { disk = self.new.disk; metadata = self.new.metadata; mode = self.new.mode } }
        ensures geometry { M.geometry self.new.metadata ≡ M.geometry self.old.metadata }
    {
        match *message {
            Message::CreateThin { id } => self.begin_create(id, &None),
            Message::CreateSnap { id, origin } => self.begin_create(id, &Some(origin)),
            Message::Delete { id } => self.begin_delete(id),
            Message::SetTransactionId { current, next } => {
                self.begin_set_transaction_id(current, next)
            }
            Message::Grow { id, blocks } => self.begin_grow(id, blocks),
            Message::ReserveMetadataSnap => self.begin_reserve(),
            Message::ReleaseMetadataSnap => self.begin_release(),
        }
    }
}
