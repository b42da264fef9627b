//! A pool as those see it who serve its volumes.
ghost use Rattle.std.specs.Prelude.{◌≡◌, ◌/◌, ◌%◌, ◌+◌, ◌<◌, ◌≤◌, ℕ, false, length, IfOk, IsTrue, MatchResult, Some};
ghost use Rattle.tp_model.specs.Sectors.{sectors_of};
ghost use Rattle.tp_model.specs.Pool.{Outline, PlainPool, hold_count, hold_total, outline_of, volume_size};
ghost use Rattle.tp_model.specs.Calls.{Done, Flush, Found, Gave, Hold, LetGo, Listed, NextId, Read, Refused, Sized, Trim, VolumeBlocks, Walk, Write, WriteZeroes, is_failed};
ghost use Rattle.tp_model.specs.PoolStops.{reopened};
ghost use Rattle.tp_model.specs.Clauses.{EndsInVolume, Meets, View, ViewLaws};
ghost use Rattle.tp_model.specs.Flushing.{IsFlushed, IsFlushing, LeavesFewer};
ghost use Rattle.tp_model.specs.Slots.{listed};

use crate::geometry::Geometry;
use crate::mode::Mode;
use crate::numbers::{DevId, Vb};
use crate::refusal::Refusal;
use crate::slots::Slots;

/// The calls of a pool by which its volumes are served. Sectors are of 512 bytes.
pub trait Volumes {
    /// What is said of it. Its outline is known at any moment, whatever its disk does; it shows nothing where nothing is known of it,
    /// as where its disk is not honest.
    ghost view: { View Self };

    fn geometry(&self) -> Geometry
        ensures { result ≡ (view.outline self.now).geometry };

    fn mode(&self) -> Mode
        ensures { result ≡ (view.outline self.now).mode };

    /// Reads at most 2048 sectors of a volume. The range lies in the volume. Where nobody holds it, or there is no such volume, one that lies in the
    /// pool's own size will do.
    ///
    /// Refused by `NoSuchDevice`, `Failed`, `Fault` or `Damaged`.
    fn read(&mut self, id: DevId, sector: u64, out: &mut [u8]) -> Result<(), Refusal>
        requires whole { length out.old % 512 ≡ 0 }
        requires range { EndsInVolume view self.old id (sector + length out.old / 512) }
        requires most { length out.old / 512 ≤ 2048 }
        ensures { MatchResult result
            (λ _. Meets view self.old self.new (Read id sector (length out.old / 512)) (Gave (sectors_of out.new)))
            (λ reason. Meets view self.old self.new (Read id sector (length out.old / 512)) (Refused reason)) };

    /// Writes at most 2048 sectors of a volume, and with `fua` keeps them. The range lies in the volume.
    ///
    /// Refused by `NoSuchDevice`, `Failed`, `ReadOnly`, `NoMetadataSpace`, `NoDataSpace`, `Fault` or `Damaged`.
    fn write(&mut self, id: DevId, sector: u64, bytes: &[u8], fua: bool) -> Result<(), Refusal>
        requires whole { length bytes.now % 512 ≡ 0 }
        requires range { EndsInVolume view self.old id (sector + length bytes.now / 512) }
        requires most { length bytes.now / 512 ≤ 2048 }
        ensures { MatchResult result
            (λ _. Meets view self.old self.new (Write id sector (sectors_of bytes.now) fua) Done)
            (λ reason. Meets view self.old self.new (Write id sector (sectors_of bytes.now) fua) (Refused reason)) };

    /// Takes the data blocks of the blocks of a volume that lie wholly in a range of at most 2048 sectors, and with `fua` keeps that. Blocks that lie in
    /// it in part stay as they are. The range lies in the volume.
    ///
    /// Refused by `NoSuchDevice`, `Failed`, `ReadOnly`, `NoMetadataSpace`, `Fault` or `Damaged`.
    fn trim(&mut self, id: DevId, sector: u64, count: u64, fua: bool) -> Result<(), Refusal>
        requires range { EndsInVolume view self.old id (sector + count) }
        requires most { count ≤ 2048 }
        ensures { MatchResult result
            (λ _. Meets view self.old self.new (Trim id sector count fua) Done)
            (λ reason. Meets view self.old self.new (Trim id sector count fua) (Refused reason)) };

    /// Makes at most 2048 sectors of a volume zero, and with `fua` keeps that. With `no_hole` each of them has a data block then. Else blocks that lie
    /// wholly in the range have none, and one that lies in it in part has one where it had one. The range lies in the volume.
    ///
    /// Refused by `NoSuchDevice`, `Failed`, `ReadOnly`, `NoMetadataSpace`, `NoDataSpace`, `Fault` or `Damaged`.
    fn write_zeroes(
        &mut self,
        id: DevId,
        sector: u64,
        count: u64,
        no_hole: bool,
        fua: bool,
    ) -> Result<(), Refusal>
        requires range { EndsInVolume view self.old id (sector + count) }
        requires most { count ≤ 2048 }
        ensures { MatchResult result
            (λ _. Meets view self.old self.new (WriteZeroes id sector count no_hole fua) Done)
            (λ reason. Meets view self.old self.new (WriteZeroes id sector count no_hole fua) (Refused reason)) };

    /// Keeps all that was done.
    ///
    /// Refused by `Failed`, `Fault` or `Damaged`.
    fn flush(&mut self) -> Result<(), Refusal>
        ensures { MatchResult result
            (λ _. Meets view self.old self.new Flush Done)
            (λ reason. Meets view self.old self.new Flush (Refused reason)) };

    /// The least id of a volume that is `from` or more, if there is one. It writes nothing and takes no memory.
    ///
    /// Refused by `Failed`, `Fault` or `Damaged`.
    fn next_id(&mut self, from: DevId) -> Result<Option<DevId>, Refusal>
        ensures { MatchResult result
            (λ found. Meets view self.old self.new (NextId from) (Found found))
            (λ reason. Meets view self.old self.new (NextId from) (Refused reason)) };

    /// How many blocks a volume has. It writes nothing and takes no memory, and makes no call of the disk for a volume that is held.
    ///
    /// Refused by `Failed`, `NoSuchDevice`, `Fault` or `Damaged`.
    fn volume_blocks(&mut self, id: DevId) -> Result<u32, Refusal>
        ensures told { MatchResult result
            (λ blocks. Meets view self.old self.new (VolumeBlocks id) (Sized blocks))
            (λ reason. Meets view self.old self.new (VolumeBlocks id) (Refused reason)) }
        ensures most { IfOk result (λ blocks. blocks ≤ 16777216) };

    /// Holds a volume, which is Busy then. At most 128 holds stand at once.
    ///
    /// Refused by `Failed`, `NoSuchDevice`, `Fault` or `Damaged`.
    fn hold(&mut self, id: DevId) -> Result<(), Refusal>
        requires { hold_total (view.outline self.old).holds < 128 }
        ensures { MatchResult result
            (λ _. Meets view self.old self.new (Hold id) Done)
            (λ reason. Meets view self.old self.new (Hold id) (Refused reason)) };

    /// Lets go of a volume that is held.
    fn let_go(&mut self, id: DevId)
        requires { 0 < hold_count (view.outline self.old).holds id }
        ensures { Meets view self.old self.new (LetGo id) Done };

    /// What holds of all that is said.
    ghost laws: { ViewLaws view };
}

/// Volumes at which many may look at once, while nothing else is done to the pool.
pub trait SharedVolumes: Volumes {
    /// Reads at most 2048 sectors of a volume: true where `out` has what `read` would give. False says nothing of the pool, and no call of it was made:
    /// `read` is to be asked then. `out` may hold anything behind it. The range lies in the volume.
    fn read_shared(&self, id: DevId, sector: u64, out: &mut [u8]) -> bool
        requires whole { length out.old % 512 ≡ 0 }
        requires range { EndsInVolume Self.view self.now id (sector + length out.old / 512) }
        requires most { length out.old / 512 ≤ 2048 }
        ensures { IsTrue result → Meets Self.view self.now self.now (Read id sector (length out.old / 512)) (Gave (sectors_of out.new)) };

    /// Lists slots of a volume with blocks from `from` on: true where `slots` has what `Walked::walk` would list. False says nothing of the pool, and no call of it was
    /// made: `walk` is to be asked then. `slots` may hold anything behind it.
    fn walk_shared(&self, id: DevId, from: Vb, slots: &mut Slots) -> bool
        ensures { IsTrue result → Meets Self.view self.now self.now (Walk id from) (Listed (listed slots.new.items)) };

    /// Brings to the device what calls so far wrote to the disk, while others read, so that a flush behind it has less to wait for. It is no flush: nothing
    /// is promised of it, and what fails of it the next flush tells.
    fn sync_ahead(&self);
}

/// What those look at who change nothing, while nothing else is done: volumes, or such in the middle of a flush.
pub trait SharedReads<V: Volumes> {
    /// The volumes at which they look.
    ghost of: { Self → V };

    /// How many parts of a flush are left at most: none of volumes that are in the middle of none.
    ghost left: { Self → ℕ };

    /// The sizes of the pool that these volumes are of.
    fn geometry_beside(&self) -> Geometry
        ensures { result ≡ (V.view.outline (of self.now)).geometry };

    /// Reads at most 2048 sectors of a volume, as `SharedVolumes::read_shared` of those volumes: true where `out` has what `read` would give. False says
    /// nothing of the pool, and no call of it was made. `out` may hold anything behind it. The range lies in the volume.
    fn read_beside(&self, id: DevId, sector: u64, out: &mut [u8]) -> bool
        requires whole { length out.old % 512 ≡ 0 }
        requires range { EndsInVolume V.view (of self.now) id (sector + length out.old / 512) }
        requires most { length out.old / 512 ≤ 2048 }
        ensures { IsTrue result → Meets V.view (of self.now) (of self.now) (Read id sector (length out.old / 512)) (Gave (sectors_of out.new)) };

    /// Lists slots of a volume, as `SharedVolumes::walk_shared` of those volumes: true where `slots` has what `Walked::walk` would list. False says nothing of the pool, and no
    /// call of it was made. `slots` may hold anything behind it.
    fn walk_beside(&self, id: DevId, from: Vb, slots: &mut Slots) -> bool
        ensures { IsTrue result → Meets V.view (of self.now) (of self.now) (Walk id from) (Listed (listed slots.new.items)) };

    /// Brings to the device what was written to the disk so far, while others read. It is no flush, and what fails of it the next flush tells.
    fn sync_beside(&self);
}

impl<V: SharedVolumes> SharedReads<V> for V {
    ghost of = { λ v. v };

    ghost left = { λ v. 0 };

    fn geometry_beside(&self) -> Geometry {
        self.geometry()
    }

    fn read_beside(&self, id: DevId, sector: u64, out: &mut [u8]) -> bool {
        self.read_shared(id, sector, out)
    }

    fn walk_beside(&self, id: DevId, from: Vb, slots: &mut Slots) -> bool {
        self.walk_shared(id, from, slots)
    }

    fn sync_beside(&self) {
        self.sync_ahead();
    }
}

/// How far a flush is.
#[derive(Drop)]
pub enum Flushing<V, M> {
    /// It is done: the volumes behind it, and its answer.
    Done(V, Result<(), Refusal>),
    /// A part of it is done, and others are left.
    Midway(M),
}

/// Volumes of which a flush can be made in parts, between which others look at them.
pub trait Staged: SharedVolumes + Sized {
    /// Such volumes in the middle of a flush.
    type Midway: SharedReads<Self>;

    /// The first part of a flush, or the whole of it, which is one of `flush`. Where others are left, what this one wrote is brought to the device by
    /// `sync_beside` before the next, which finds less to wait for.
    ///
    /// Refused by `Failed`, `Fault` or `Damaged`.
    fn begin_flush(self) -> Flushing<Self, Self::Midway>
        ensures { IsFlushing Self.view Self.Midway.of self result };

    /// The next part, or the rest. Each leaves fewer parts than were left before it, so the end is reached by so many calls at most as were left behind the first.
    fn go_on(midway: Self::Midway) -> Flushing<Self, Self::Midway>
        ensures flushing { IsFlushing Self.view Self.Midway.of (Self.Midway.of midway) result }
        ensures fewer { LeavesFewer Self.Midway.left (Self.Midway.left midway) result };

    /// All parts that are left, one behind the other.
    fn end_flush(midway: Self::Midway) -> (Self, Result<(), Refusal>)
        ensures { IsFlushed Self.view (Self.Midway.of midway) result.0 result.1 };
}
