//! A disk that keeps changed metadata blocks in memory.
ghost use Rattle.std.specs.Prelude.{◌≡◌, ◌+◌, ◌*◌, ◌/◌, ◌%◌, ◌<◌, ◌≤◌, ℕ, List, length, is_ok, IsTrue, MatchResult, OnOk, OnErr};
ghost use Rattle.tp_model.specs.Sectors.{Sector, sectors_of, bytes_at};
ghost use Rattle.tp_model.specs.Disk.{IsSettled, IsWellFormed, Writes, cell_at, after_flush, after_read, after_write, seen};
ghost use Rattle.tp_model.specs.DiskStops.{AfterStop, moment};
ghost use Rattle.tp_cache.specs.Table.{IsSameTable, MayKeep};
ghost use Rattle.tp_cache.specs.Line.{FlushedAlike, IsLine, WentOn, begun};

use crate::holding::Core;
use crate::places::Places;
use std::alloc::Global;
use tp_disk::{Disk, Fault, SharedDisk};

/// So many bytes take a device longer than one sync more.
const MUCH: u64 = 1 << 20;

/// A disk over another one, at which each write seems done at once. A whole block of the metadata, which are the first blocks of
/// the disk, is kept in memory until the next flush, or until as many are kept as it was given room for; all else goes to the inner disk.
#[derive(Drop)]
pub struct NodeCache<D: Disk> {
    core: Core<D>,
    ghost well_formed: { IsWellFormed core.line.outer.size core.line.outer.cells },
}

impl<D: Disk> NodeCache<D> {
    /// Keeps nothing yet. The disk is handed back where there is no memory. No later call takes memory.
    pub fn new(
        alloc: Global,
        disk: D,
        metadata_blocks: usize,
        room: usize,
    ) -> Result<NodeCache<D>, D>
        requires some { 0 < room }
        requires few { room < 65536 }
        requires within { 8 * metadata_blocks ≤ (D.state disk).size }
        ensures { MatchResult result (λ cache. (cache.core.line ≡ begun (D.state disk)) × (cache.core.used ≡ 0) × (cache.core.room ≡ room) × (length cache.core.index ≡ metadata_blocks)) (λ back. back ≡ disk) }
    {
        match Places::new(alloc, metadata_blocks, room) {
            Ok(places) => Ok(NodeCache::over(disk, places)),
            Err(_) => Err(disk),
        }
    }

    /// Keeps nothing yet. No later call takes memory.
    pub fn over(disk: D, places: Places) -> NodeCache<D>
        requires { 8 * places.blocks ≤ (D.state disk).size }
        ensures line { result.core.line ≡ begun (D.state disk) }
        ensures used { result.core.used ≡ 0 }
        ensures room { result.core.room ≡ length places.slots.items }
        ensures blocks { length result.core.index ≡ places.blocks }
    {
        let core = Core::over(disk, places);
        core.facts();
        NodeCache { core }
    }

    /// The inner disk.
    pub fn inner(&self) -> &D
        ensures { D.state result.now ≡ self.now.core.line.inner }
    {
        self.core.inner()
    }

    /// The inner disk. After a flush that succeeded it has the cells of the cache.
    pub fn into_inner(self) -> D
        ensures state { D.state result ≡ self.core.line.inner }
        ensures settled { IsSettled self.core.line.outer.cells → (D.state result).cells ≡ self.core.line.outer.cells }
        ensures stop { (image : List Sector) → AfterStop (D.state result).cells image → AfterStop self.core.line.outer.cells image }
    {
        let NodeCache { core } = self;
        core.facts();
        core.into_inner()
    }

    /// What is known of every cache.
    pub fn facts(&self)
        ensures line { IsLine self.now.core.line }
        // Behind the metadata blocks each sector of the inner disk is as it is on this one.
        ensures data { (i : ℕ) → 8 * length self.now.core.index ≤ i → cell_at self.now.core.line.inner.cells i ≡ cell_at self.now.core.line.outer.cells i }
    {
        self.core.facts();
    }
}

impl<D: Disk> Disk for NodeCache<D> {
    ghost state = { λ cache. cache.core.line.outer };

    ghost well_formed = { λ cache. cache.well_formed };

    fn sectors(&self) -> u64 {
        self.core.sectors()
    }

    fn read(&mut self, at: u64, out: &mut [u8]) -> Result<(), Fault>
        requires whole { length out.old % 512 ≡ 0 }
        requires within { at + length out.old / 512 ≤ self.old.core.line.outer.size }
        ensures state { self.new.core.line.outer ≡ after_read (is_ok result) self.old.core.line.outer }
        // It makes no other call of the inner disk than a read.
        ensures inner { self.new.core.line.inner ≡ after_read (is_ok result) self.old.core.line.inner }
        ensures bytes { OnOk result (IsTrue self.old.core.line.outer.is_honest
            → out.new ≡ bytes_at (seen self.old.core.line.outer.cells) at (length out.old / 512)) }
        ensures time { WentOn self.old.core.line.under self.new.core.line.under }
        ensures table { IsSameTable 0 self.old.core self.new.core }
        ensures alike { FlushedAlike self.old.core.line self.new.core.line }
    {
        self.core.read(at, out)
    }

    fn write(&mut self, at: u64, bytes: &[u8]) -> Result<(), Fault>
        requires whole { length bytes.now % 512 ≡ 0 }
        requires within { at + length bytes.now / 512 ≤ self.old.core.line.outer.size }
        ensures any { Writes at (sectors_of bytes.now) self.old.core.line.outer self.new.core.line.outer }
        ensures ok { OnOk result (self.new.core.line.outer ≡ after_write at (sectors_of bytes.now) self.old.core.line.outer) }
        ensures err { OnErr result (self.new.core.line.outer.failures ≡ self.old.core.line.outer.failures + 1) }
        // A moment of the outer disk, also where it failed.
        ensures moved { moment self.new.core.line.outer ≡ moment self.old.core.line.outer + 1 }
        ensures time { WentOn self.old.core.line.under self.new.core.line.under }
        ensures table { IsSameTable 1 self.old.core self.new.core }
        // A metadata block is kept in memory, and no call made of the inner disk, where not all slots have dirty ones.
        ensures kept { MayKeep at (length bytes.now) self.old.core → self.new.core.line.inner ≡ self.old.core.line.inner }
        ensures flushes { self.new.core.line.inner.flushes ≡ self.old.core.line.inner.flushes }
        ensures alike { FlushedAlike self.old.core.line self.new.core.line }
    {
        self.core.write(at, bytes)
    }

    fn flush(&mut self) -> Result<(), Fault>
        ensures state { self.new.core.line.outer ≡ after_flush (is_ok result) self.old.core.line.outer }
        ensures time { WentOn self.old.core.line.under self.new.core.line.under }
        ensures table { IsSameTable 0 self.old.core self.new.core }
        ensures none { OnOk result (self.new.core.used ≡ 0) }
        ensures flushed { OnOk result (self.new.core.line.inner.flushes ≡ self.old.core.line.inner.flushes + 1) }
        ensures alike { FlushedAlike self.old.core.line self.new.core.line }
    {
        self.core.flush()
    }
}

impl<D: SharedDisk> SharedDisk for NodeCache<D> {
    fn read_shared(&self, at: u64, out: &mut [u8]) -> bool {
        self.core.read_shared(at, out)
    }

    // Where blocks have changed, a commit writes and flushes them and others that it changes itself, so a sync before it is one more: it pays where much
    // was written.
    fn sync_ahead(&self, least: u64) {
        let least = if self.core.has_changed() {
            least.max(MUCH)
        } else {
            least
        };
        self.core.inner().sync_ahead(least);
    }
}
