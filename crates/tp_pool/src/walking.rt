//! The slots of a volume in the order of their blocks, a piece at a time.
ghost use Rattle.std.specs.Prelude.{◌≡◌, ◌≤◌, Bool, List, MatchResult, IsSome, IsTrue, is_some, not, take};
ghost use Rattle.tp_model.specs.Geometry.{sectors_of_image};
ghost use Rattle.tp_model.specs.Calls.{Listed, Refused, Walk};
ghost use Rattle.tp_model.specs.Clauses.{Flushes, IsAnswered};
ghost use Rattle.tp_model.specs.Refusals as refusals;
ghost use Rattle.tp_model.specs.Disk.{after_read};
ghost use Rattle.tp_sharing.specs.Volumes.{device_of};
ghost use Rattle.tp_stored.specs.Contents.{Contents};
ghost use Rattle.tp_mapping.specs.Mapping.{from_block, slots_of};
ghost use Rattle.tp_meta.specs.Metadata.{LooksUp};
ghost use Rattle.tp_holders.specs.Holders.{Holding};
ghost use Rattle.tp_pool.specs.Besides.{besides_of, pool_on};
ghost use Rattle.tp_pool.specs.Held.{Held};
ghost use Rattle.tp_model.specs.Slots.{listed};
ghost use Rattle.tp_pool.specs.AtMetadata.{IsMidFlush, IsSharedCall, PoolCalled, PoolRefused, served, view};

use crate::pool::{Besides, Pool, is_failed};
use tp_counts::StoreError;
use tp_disk::{Disk, SharedDisk, SharedReader};
use tp_meta::Metadata;
use tp_model::{DevId, Mode, Refusal, Slots, Vb};

/// Lists the slots of a volume with virtual blocks from `from` on, as many as there is room for, as look-ups tell on this disk. It tells whether there is such a volume;
/// where there is none, it lists none. After an `Err` some may be listed.
fn list_slots<D: Disk, M: Metadata>(
    disk: &mut D,
    metadata: &M,
    id: DevId,
    from: Vb,
    slots: &mut Slots,
) -> Result<bool, StoreError>
    requires { sectors_of_image (M.geometry metadata.now) ≤ (D.state disk.old).size }
    ensures looked { LooksUp (M.stands metadata.now) (D.state disk.old) (D.state disk.new) result (λ is_there now. (is_there ≡ is_some (device_of id now.volumes))
        × (slots.new.items ≡ take 252 (from_block from (slots_of id now.volumes)))) }
    // By what look-ups tell on the disk, also in the midst of a commit.
    ensures read { LooksUp (M.tells metadata.now) (D.state disk.old) (D.state disk.new) result (λ is_there now. (is_there ≡ is_some (device_of id now.volumes))
        × (slots.new.items ≡ take 252 (from_block from (slots_of id now.volumes)))) }
{
    slots.clear();
    metadata.walk(disk, id, from, slots)
}

/// Lists slots for those who look at a pool at once: true where the pool works, there is such a volume, and the disk could be looked at. False says nothing, and `slots`
/// may hold anything behind it.
fn list_parts<D: SharedDisk, M: Metadata>(
    disk: &D,
    metadata: &M,
    mode: Mode,
    id: DevId,
    from: Vb,
    slots: &mut Slots,
) -> bool
    requires { sectors_of_image (M.geometry metadata.now) ≤ (D.state disk.now).size }
    ensures listed { IsTrue result → (holders : List Holding)
        → IsSharedCall M.Metadata (record { disk = D.state disk.now; metadata = metadata.now; holders = holders; mode = mode }) (Walk id from) (Listed (listed slots.new.items)) }
    ensures told { IsTrue result → (now kept : Contents) → M.tells metadata.now (D.state disk.now) now kept → IsSome (device_of id now.volumes)
        × (slots.new.items ≡ take 252 (from_block from (slots_of id now.volumes))) }
{
    if is_failed(mode) {
        return false;
    }
    let mut reader = SharedReader::new(disk);
    list_slots(&mut reader, metadata, id, from, slots).unwrap_or(false)
}

impl<D: Disk, M: Metadata> Pool<D, M> {
    /// Lists the slots of a volume with blocks from `from` on, in the order of their blocks, each with the number of its data block. It lists 252 where
    /// there are so many, and the next call asks for those from behind the last one; where it lists fewer, there are no more. It writes nothing and takes
    /// no memory. Behind an `Err` `slots` may hold anything.
    ///
    /// Refused by `Failed`, `NoSuchDevice`, `Fault` or `Damaged`.
    pub fn walk(&mut self, id: DevId, from: Vb, slots: &mut Slots) -> Result<(), Refusal>
        ensures called { MatchResult result
            (λ _. PoolCalled M.Metadata self.old self.new (Walk id from) (Listed (listed slots.new.items)))
            (λ reason. PoolRefused M.Metadata self.old self.new (Walk id from) reason) }
        ensures answered { MatchResult result
            (λ _. IsAnswered (view M.Metadata) self.old self.new (Walk id from) (Listed (listed slots.new.items)))
            (λ reason. IsAnswered (view M.Metadata) self.old self.new (Walk id from) (Refused reason)) }
        ensures flushes { MatchResult result
            (λ _. Flushes (served M.Metadata) self.old self.new (Walk id from) (Listed (listed slots.new.items)))
            (λ reason. Flushes (served M.Metadata) self.old self.new (Walk id from) (Refused reason)) }
        ensures held { self.new ≡ record self.old { disk = after_read (not (refusals.is_fault result)) self.old.disk } }
    {
        if is_failed(self.mode) {
            return Err(Refusal::Failed);
        }
        let is_there = list_slots(&mut self.disk, &self.metadata, id, from, slots)?;
        if !is_there {
            return Err(Refusal::NoSuchDevice);
        }
        Ok(())
    }
}

impl<D: SharedDisk, M: Metadata> Pool<D, M> {
    /// Lists slots of a volume, for any of those who look at the pool at once: true where `slots` has what `walk` would list. False says nothing of the pool, and no call of it
    /// was made: `walk` is to be asked then. `slots` may hold anything behind it.
    pub fn walk_shared(&self, id: DevId, from: Vb, slots: &mut Slots) -> bool
        ensures { IsTrue result → IsSharedCall M.Metadata self.now (Walk id from) (Listed (listed slots.new.items)) }
    {
        list_parts(&self.disk, &self.metadata, self.mode, id, from, slots)
    }
}

impl<M: Metadata> Besides<M> {
    /// Lists slots of a volume of the pool that these make on a disk, which stays where it is: true where `slots` has what `Pool::walk` would list. False says nothing of the
    /// pool, and no call of it was made: `Pool::walk` is to be asked then. `slots` may hold anything behind it.
    pub fn walk_shared<D: SharedDisk>(
        &self,
        disk: &D,
        id: DevId,
        from: Vb,
        slots: &mut Slots,
    ) -> bool
        requires { sectors_of_image (M.geometry self.now.metadata) ≤ (D.state disk.now).size }
        ensures { IsTrue result → IsSharedCall M.Metadata (pool_on (D.state disk.now) self.now) (Walk id from) (Listed (listed slots.new.items)) }
    {
        list_parts(disk, &self.metadata, self.mode, id, from, slots)
    }

    /// Lists slots of a volume of a pool in the midst of a flush, which these make on a disk: true where `slots` has what `walk_shared` listed before the flush was begun. False
    /// says nothing, and `slots` may hold anything behind it.
    pub fn walk_midway<D: SharedDisk>(
        &self,
        disk: &D,
        id: DevId,
        from: Vb,
        slots: &mut Slots,
    ) -> bool
        requires { sectors_of_image (M.geometry self.now.metadata) ≤ (D.state disk.now).size }
        ensures { IsTrue result → (old : Held M) (is_named : Bool) → besides_of old ≡ self.now → IsMidFlush M.Metadata old is_named (D.state disk.now)
            → IsSharedCall M.Metadata old (Walk id from) (Listed (listed slots.new.items)) }
    {
        list_parts(disk, &self.metadata, self.mode, id, from, slots)
    }
}
