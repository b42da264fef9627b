//! How a pool is opened on caches.
ghost use Rattle.std.specs.Prelude.{◌≡◌, ◌≢◌, ◌⊎◌, ◌+◌, ◌<◌, ◌≤◌, [], Err, IfErr, IfOk, IsTrue, MatchResult, Ok, OnOk, false, length, not};
ghost use Rattle.tp_model.specs.Geometry.{Geometry, sectors_of_image};
ghost use Rattle.tp_model.specs.Pool.{PlainPool};
ghost use Rattle.tp_model.specs.Refusals.{is_fault_refusal};
ghost use Rattle.tp_model.specs.Clauses.{IsOpened};
ghost use Rattle.tp_model.specs.Calls.{Done, Refused};
ghost use Rattle.tp_model.specs.Disk.{FaultHasCause, IsSameDisk, IsSettled, after_read, seen};
ghost use Rattle.tp_model.specs.DiskStops.{Leaves, LeavesOnly};
ghost use Rattle.tp_layout.specs.declared.superblock.Superblock.{Superblock};
ghost use Rattle.tp_image.specs.Slots.{Chooses};
ghost use Rattle.tp_image.specs.Fresh.{IsFreshOf, empty_pool};
ghost use Rattle.tp_image.specs.Stands as images;
ghost use Rattle.tp_stored.specs.Contents.{Contents, HoldsContents};
ghost use Rattle.tp_cache.specs.Line.{begun};
ghost use Rattle.tp_meta.specs.Format.{IsFormatting};
ghost use Rattle.tp_meta.specs.Opening.{IsOpenedFrom, IsUnopened};
ghost use Rattle.tp_meta.specs.Standing.{StandsFor, changed_of, geometry_of, marks_of, opened_of, room_of};
ghost use Rattle.tp_pool.specs.Held.{IsPool, shows};
ghost use Rattle.tp_pool.specs.Formatting.{IsBetween};
ghost use Rattle.tp_pool.specs.Lives.{IsReopenedFrom};
ghost use Rattle.tp_served.specs.AtMetadata.{IsClosed};
ghost use Rattle.tp_served.specs.Served.{IsAtStart, cached, disk_of, on_cache};

use crate::inside::Inside;
use crate::served::Served;
use std::alloc::{AllocError, Global};
use std::num::NonZeroUsize;
use tp_cache::{NodeCache, Places, ReadCache, ReadPlaces};
use tp_disk::Disk;
use tp_meta::{Meta, Metadata};
use tp_model::{Geometry, Refusal};
use tp_pool::{Pool, opened_pools_go_on};

/// How many metadata blocks of 4096 bytes are kept in memory, one of each kind at least.
#[derive(Clone, Copy, Debug, PartialEq, Eq)]
pub struct Room {
    /// At most this many changed ones, which a commit writes.
    pub changed: u16,
    /// At most this many that were read.
    pub read: u16,
}

// Memory for both caches.
#[derive(Drop)]
struct BothPlaces {
    changed: Places,
    read: ReadPlaces,
}

fn take_places(alloc: Global, blocks: usize, room: Room) -> Result<BothPlaces, AllocError>
    ensures { IfOk result (λ places. (places.changed.blocks ≡ blocks) × (0 < room.changed → length places.changed.slots.items ≡ room.changed)) }
{
    let changed = Places::new(alloc, blocks, at_least_one(room.changed))?;
    let read = ReadPlaces::new(alloc, some(room.read))?;
    Ok(BothPlaces { changed, read })
}

fn at_least_one(count: u16) -> usize
    ensures some { 0 < result }
    ensures few { result < 65536 }
    ensures same { 0 < count → result ≡ count }
{
    if count == 0 {
        return 1;
    }
    count as usize
}

fn some(count: u16) -> NonZeroUsize {
    match NonZeroUsize::new(count as usize) {
        Some(count) => count,
        None => NonZeroUsize::MIN,
    }
}

/// The pool on caches that hold nothing yet.
fn over<D: Disk, M: Metadata>(pool: Pool<D, M>, places: BothPlaces) -> Inside<ReadCache<D>, M>
    requires { places.changed.blocks ≡ (M.geometry pool.metadata).metadata_blocks }
    ensures pool { on_cache result ≡ pool }
    ensures line { result.cache.line ≡ begun pool.disk }
    ensures used { result.cache.used ≡ 0 }
    ensures room { result.cache.room ≡ length places.changed.slots.items }
    ensures blocks { length result.cache.index ≡ (M.geometry pool.metadata).metadata_blocks }
{
    let BothPlaces { changed, read } = places;
    let blocks = pool.geometry().metadata_blocks() as usize;
    let (disk, besides) = pool.take_apart();
    let cache = NodeCache::over(ReadCache::over(disk, blocks, read), changed);
    Inside::of(cache, besides)
}

/// A pool goes on with caches that hold nothing yet; or its disk is handed back, where there is no memory for them.
pub(crate) fn on_caches<D: Disk + Drop, M: Metadata + Drop>(
    alloc: Global,
    pool: Pool<D, M>,
    room: Room,
) -> Result<Served<ReadCache<D>, M>, (Refusal, D)>
    ensures made { IfOk result (λ served. (on_cache served ≡ pool) × IsAtStart M.geometry served room.changed pool.disk) }
    ensures memory { IfErr result (λ back. (back.0 ≡ Refusal.Memory) × (D.state back.1 ≡ pool.disk)) }
{
    let blocks = pool.geometry().metadata_blocks() as usize;
    match take_places(alloc, blocks, room) {
        Ok(places) => Ok(Served::of(over(pool, places))),
        Err(_) => {
            let (disk, _) = pool.take_apart();
            Err((Refusal::Memory, disk))
        }
    }
}

impl<D: Disk + Drop, M: Metadata + Drop> Served<ReadCache<D>, M> {
    /// Keeps all that was done, as `flush` does and with its answers, and hands the disk back with any of them.
    pub fn close(self) -> (Result<(), Refusal>, D)
        ensures closed { MatchResult result.0
            (λ _. IsClosed M.Metadata self (D.state result.1) Done)
            (λ reason. IsClosed M.Metadata self (D.state result.1) (Refused reason)) }
        // Nothing was written behind the last flush, so it can be opened at once.
        ensures settled { OnOk result.0 ((s : PlainPool) → shows M.geometry M.stands (on_cache self) s → IsSettled (D.state result.1).cells) }
        ensures only { IfErr result.0 (λ reason. (reason ≡ Refusal.Failed) ⊎ (reason ≡ Refusal.Fault)) }
    {
        let (answer, disk) = self.end();
        (answer, disk.into_inner())
    }

    /// Hands the disk back as it is now, as a stop would leave it: nothing is written and nothing flushed, and what is not committed is lost.
    pub fn into_disk(self) -> D
        ensures { D.state result ≡ disk_of self }
    {
        self.into_under().into_inner()
    }

    /// The disk under the caches.
    pub fn disk(&self) -> &D
        ensures { D.state result.now ≡ disk_of self.now }
    {
        self.under().inner()
    }
}

impl<D: Disk + Drop> Served<ReadCache<D>, Meta> {
    /// The pool of the last commit of a disk, or a refusal with the disk handed back. It writes nothing.
    ///
    /// It refuses as `Pool::open` does, and with `Memory` where there is none for the caches.
    pub fn open(
        alloc: Global,
        disk: D,
        room: Room,
    ) -> Result<Served<ReadCache<D>, Meta>, (Refusal, D)>
        // Nothing is changed, neither in the cache nor in the pool, and the disk under the cache is the one that was given.
        ensures start { IfOk result (λ served. IsAtStart geometry_of served room.changed (D.state disk)) }
        ensures holders { IfOk result (λ served. served.besides.holders ≡ []) }
        ensures unchanged { IfOk result (λ served. changed_of served.besides.metadata ≡ false) }
        // The superblock that the slots give, with the counts of its area.
        ensures told { IfOk result (λ served. IsTrue (D.state disk).is_honest
            → IsOpenedFrom (seen (D.state disk).cells) (opened_of served.besides.metadata)) }
        // It shows each pool that stands on the disk.
        ensures reopened { IfOk result (λ served. IsTrue (D.state disk).is_honest → IsSettled (D.state disk).cells
            → IsReopenedFrom geometry_of StandsFor (seen (D.state disk).cells) (on_cache served)) }
        // So it goes on from whatever a stop left, as `calls_are_traced` says.
        ensures opened { IfOk result (λ served. IsTrue (D.state disk).is_honest → IsSettled (D.state disk).cells
            → IsOpened (cached geometry_of StandsFor marks_of room_of changed_of) (seen (D.state disk).cells) served) }
        ensures why { IfErr result (λ back. back.0 ≢ Refusal.Fault → back.0 ≢ Refusal.Memory → IsTrue (D.state disk).is_honest → IsUnopened (seen (D.state disk).cells) back.0) }
        // The image of a commit is opened, where the disk and the memory allow it.
        ensures refused { IfErr result (λ back. back.0 ≢ Refusal.Fault → back.0 ≢ Refusal.Memory → IsTrue (D.state disk).is_honest
            → (g : Geometry) (c : Contents) → HoldsContents g c (seen (D.state disk).cells) → ⊥) }
        ensures back { IfErr result (λ back. D.state back.1 ≡ after_read (not (is_fault_refusal back.0)) (D.state disk)) }
    {
        let pool = match Pool::open(alloc, disk) {
            Ok(pool) => pool,
            Err(back) => return Err(back),
        };
        opened_pools_go_on::<Meta>();
        on_caches(alloc, pool, room)
    }

    /// Makes a disk that of an empty pool of this geometry, whatever it held, and opens it; or a refusal with the disk handed
    /// back.
    ///
    /// It refuses, in this order: with `Memory` where there is none for the caches, one block, the marks and the counts, and with
    /// `BadGeometry` where the disk has fewer sectors than the image; both before any disk call. It refuses with `Fault`
    /// where the disk failed.
    pub fn format(
        alloc: Global,
        disk: D,
        geometry: Geometry,
        room: Room,
    ) -> Result<Served<ReadCache<D>, Meta>, (Refusal, D)>
        ensures start { IfOk result (λ served. IsAtStart geometry_of served room.changed (disk_of served)) }
        ensures shows { IfOk result (λ served. IsTrue (D.state disk).is_honest → shows geometry_of StandsFor (on_cache served) (empty_pool geometry)) }
        // It is as one that was opened from the image that stands on the disk now.
        ensures opened { IfOk result (λ served. IsTrue (D.state disk).is_honest
            → IsOpened (cached geometry_of StandsFor marks_of room_of changed_of) (seen (disk_of served).cells) served) }
        ensures holders { IfOk result (λ served. served.besides.holders ≡ []) }
        ensures unchanged { IfOk result (λ served. changed_of served.besides.metadata ≡ false) }
        ensures geometry { IfOk result (λ served. geometry_of served.besides.metadata ≡ geometry) }
        ensures fresh { IfOk result (λ served. IsFreshOf geometry (seen (disk_of served).cells)) }
        ensures settled { IfOk result (λ served. IsSettled (disk_of served).cells) }
        ensures flushed { IfOk result (λ served. (disk_of served).flushes ≡ (D.state disk).flushes + 4) }
        ensures only { IfErr result (λ back. (back.0 ≡ Refusal.Memory) ⊎ (back.0 ≡ Refusal.BadGeometry) ⊎ (back.0 ≡ Refusal.Fault)) }
        ensures small { IfErr result (λ back. back.0 ≡ Refusal.BadGeometry → (D.state disk).size < sectors_of_image geometry) }
        ensures large { (D.state disk).size < sectors_of_image geometry
            → MatchResult result (λ _. ⊥) (λ back. (back.0 ≡ Refusal.BadGeometry) ⊎ (back.0 ≡ Refusal.Memory)) }
        ensures same { MatchResult result (λ served. IsSameDisk (D.state disk) (disk_of served)) (λ back. IsSameDisk (D.state disk) (D.state back.1)) }
        ensures cause { MatchResult result (λ served. FaultHasCause false (D.state disk) (disk_of served))
            (λ back. FaultHasCause (is_fault_refusal back.0) (D.state disk) (D.state back.1)) }
        ensures untouched { IfErr result (λ back. back.0 ≢ Refusal.Fault → D.state back.1 ≡ D.state disk) }
        // At any moment a stop leaves the pool that the disk held, no pool, or the new one.
        ensures any_moment { (last : Superblock) → IsTrue (D.state disk).is_honest → Leaves (λ image. Chooses image (Ok last)) (D.state disk).cells
            → MatchResult result (λ served. LeavesOnly (D.state disk) (disk_of served) (IsFormatting last geometry (D.state disk).cells))
            (λ back. LeavesOnly (D.state disk) (D.state back.1) (IsFormatting last geometry (D.state disk).cells)) }
        // So where a pool stood on a settled disk: that one, no pool, or the new one, and each pool in an image that `open` opens as it.
        ensures pools { IsTrue (D.state disk).is_honest → IsSettled (D.state disk).cells
            → (g : Geometry) (s : PlainPool) → IsPool g (seen (D.state disk).cells) → images.StandsFor (seen (D.state disk).cells) s
            → MatchResult result (λ served. LeavesOnly (D.state disk) (disk_of served) (IsBetween g s geometry))
            (λ back. LeavesOnly (D.state disk) (D.state back.1) (IsBetween g s geometry)) }
    {
        let places = match take_places(alloc, geometry.metadata_blocks() as usize, room) {
            Ok(places) => places,
            Err(_) => return Err((Refusal::Memory, disk)),
        };
        opened_pools_go_on::<Meta>();
        match Pool::format(alloc, disk, geometry) {
            Ok(pool) => Ok(Served::of(over(pool, places))),
            Err(back) => Err(back),
        }
    }
}
