//! A pool and the cache that it stands on.
ghost use Rattle.std.specs.Prelude.{◌≡◌, ◌+◌, ◌/◌, ◌%◌, ◌≤◌, Bool, IsTrue, length};
ghost use Rattle.tp_model.specs.Calls.{Gave, Listed, Read, Walk};
ghost use Rattle.tp_model.specs.Clauses.{EndsInVolume, Meets};
ghost use Rattle.tp_model.specs.Geometry.{sectors_of_image};
ghost use Rattle.tp_model.specs.Sectors.{sectors_of};
ghost use Rattle.tp_cache.specs.Table.{Since};
ghost use Rattle.tp_pool.specs.Held.{Fits};
ghost use Rattle.tp_model.specs.Slots.{listed};
ghost use Rattle.tp_pool.specs.AtMetadata.{IsSharedCall, IsSharedRead, view};
ghost use Rattle.tp_served.specs.Served.{Cached, IsKnown, disk_of, on_cache};
ghost use Rattle.tp_served.specs.AtMetadata.{IsMidway, cached};

use std::marker::Model;
use tp_cache::{Life, NodeCache, Past, Start};
use tp_disk::{Disk, SharedDisk};
use tp_meta::Metadata;
use tp_model::{DevId, Geometry, Mode, Slots, Vb};
use tp_pool::{Besides, Pool};

/// A cache over a disk, and what the pool on it has besides.
#[derive(Drop)]
pub struct Inside<D: Disk, M: Metadata> {
    cache: NodeCache<D>,
    besides: Besides<M>,
}

impl<D: Disk, M: Metadata> Model for Inside<D, M> {
    ghost use Rattle.std.specs.Prelude.{◌≤◌, length};
    ghost use Rattle.tp_model.specs.Geometry.{sectors_of_image};
    ghost use Rattle.tp_served.specs.Served as served;

    ghost Value = { served.Cached M };

    ghost view = { λ i. record { cache = i.cache.core; besides = i.besides } };

    ghost invariant = { λ i. (sectors_of_image (M.geometry i.besides.metadata) ≤ i.cache.core.line.outer.size)
        × (length i.cache.core.index ≤ (M.geometry i.besides.metadata).metadata_blocks) };
}

impl<D: Disk, M: Metadata> Inside<D, M> {
    pub(crate) fn of(cache: NodeCache<D>, besides: Besides<M>) -> Inside<D, M>
        requires fits { sectors_of_image (M.geometry besides.metadata) ≤ cache.core.line.outer.size }
        requires blocks { length cache.core.index ≤ (M.geometry besides.metadata).metadata_blocks }
        ensures cache { result.cache ≡ cache.core }
        ensures besides { result.besides ≡ besides }
    {
        Inside { cache, besides }
    }

    pub(crate) fn geometry(&self) -> Geometry
        ensures { result ≡ M.geometry self.now.besides.metadata }
    {
        self.besides.geometry()
    }

    pub(crate) fn disk(&self) -> &D
        ensures { D.state result.now ≡ disk_of self.now }
    {
        self.cache.inner()
    }

    pub(crate) fn mode(&self) -> Mode
        ensures { result ≡ self.now.besides.mode }
    {
        self.besides.mode()
    }

    /// What is known of each.
    pub(crate) fn facts(&self)
        ensures { IsKnown M.geometry self.now }
    {
        self.cache.facts();
    }

    /// The pool, on a cache since now.
    pub(crate) fn begin<K: Start>(self) -> Pool<Life<D, K>, M>
        requires { K.start ≡ self.cache }
        ensures { result ≡ on_cache self }
    {
        let Inside { cache, besides } = self;
        Pool::put_together(Life::begin(cache), besides)
    }
}

impl<D: Disk, M: Metadata> Inside<D, M> {
    /// The pool, on a cache that goes on since some moment.
    pub(crate) fn resume<K: Start>(self) -> Pool<Life<D, K>, M>
        requires { Since K.start self.cache }
        ensures { result ≡ on_cache self }
    {
        let Inside { cache, besides } = self;
        Pool::put_together(Life::resume(cache), besides)
    }

    /// What its cache is now.
    pub(crate) fn past(&self) -> Past
        ensures { result.held ≡ self.now.cache }
    {
        Past::now(&self.cache)
    }
}

impl<D: Disk, M: Metadata + Drop> Inside<D, M> {
    /// The disk as it is now, without what the cache keeps.
    pub(crate) fn into_disk(self) -> D
        ensures { D.state result ≡ disk_of self }
    {
        let Inside { cache, besides: _ } = self;
        cache.into_inner()
    }
}

impl<D: SharedDisk, M: Metadata> Inside<D, M> {
    /// A shared read, of the cache as it stands: nothing of it moves, so no moment is picked.
    pub(crate) fn read_shared(&self, id: DevId, sector: u64, out: &mut [u8]) -> bool
        requires whole { length out.old % 512 ≡ 0 }
        requires range { EndsInVolume (cached M.Metadata) self.now id (sector + length out.old / 512) }
        ensures length { length out.new ≡ length out.old }
        ensures met { IsTrue result → Meets (cached M.Metadata) self.now self.now (Read id sector (length out.old / 512)) (Gave (sectors_of out.new)) }
    {
        self.facts();
        self.besides.read_shared(&self.cache, id, sector, out)
    }

    /// A shared read in the midst of a flush.
    pub(crate) fn read_midway(&self, id: DevId, sector: u64, out: &mut [u8]) -> bool
        requires whole { length out.old % 512 ≡ 0 }
        requires within { Fits (M.geometry self.now.besides.metadata) (sector + length out.old / 512) }
        ensures length { length out.new ≡ length out.old }
        ensures read { IsTrue result → (old : Cached M) (is_named : Bool) → IsMidway M.Metadata old is_named self.now
            → EndsInVolume (view M.Metadata) (on_cache old) id (sector + length out.old / 512)
            → IsSharedRead M.Metadata (on_cache old) id sector (length out.old / 512) (sectors_of out.new) }
    {
        self.besides.read_midway(&self.cache, id, sector, out)
    }

    /// A shared walk, of the cache as it stands.
    pub(crate) fn walk_shared(&self, id: DevId, from: Vb, slots: &mut Slots) -> bool
        ensures { IsTrue result → Meets (cached M.Metadata) self.now self.now (Walk id from) (Listed (listed slots.new.items)) }
    {
        self.facts();
        self.besides.walk_shared(&self.cache, id, from, slots)
    }

    /// A shared walk in the midst of a flush.
    pub(crate) fn walk_midway(&self, id: DevId, from: Vb, slots: &mut Slots) -> bool
        ensures { IsTrue result → (old : Cached M) (is_named : Bool) → IsMidway M.Metadata old is_named self.now
            → IsSharedCall M.Metadata (on_cache old) (Walk id from) (Listed (listed slots.new.items)) }
    {
        self.besides.walk_midway(&self.cache, id, from, slots)
    }

    /// A sync ahead, of the cache as it stands.
    pub(crate) fn sync_ahead(&self) {
        self.cache.sync_ahead(0);
    }
}

/// The parts of a pool on a cache since some moment.
pub(crate) fn end<D: Disk, M: Metadata, K: Start>(pool: Pool<Life<D, K>, M>) -> Inside<D, M>
    requires { length K.start.index ≤ (M.geometry pool.metadata).metadata_blocks }
    ensures pool { on_cache result ≡ pool }
    ensures since { Since K.start result.cache }
{
    let (life, besides) = pool.take_apart();
    Inside {
        cache: life.end(),
        besides,
    }
}
