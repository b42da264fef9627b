//! A flush in parts, between which READs go on.
ghost use Rattle.std.specs.Prelude.{◌≡◌, ◌+◌, ◌/◌, ◌%◌, ◌≤◌, IsTrue, MatchOption, false, length, true};
ghost use Rattle.tp_model.specs.Calls.{Gave, Listed, Read, Walk};
ghost use Rattle.tp_model.specs.Clauses.{EndsInVolume, Meets};
ghost use Rattle.tp_model.specs.Sectors.{sectors_of};
ghost use Rattle.tp_model.specs.Slots.{listed};
ghost use Rattle.tp_served.specs.AtMetadata.{IsFlushed, IsFlushing, IsMidway, cached};
ghost use Rattle.tp_served.specs.Midway.{LeavesFewer, parts_left};

use crate::inside::{Inside, end};
use crate::served::Served;
use std::marker::{Brand, Model};
use tp_cache::{Past, ReadCache, Start};
use tp_disk::{Disk, SharedDisk};
use tp_meta::Metadata;
use tp_model::{DevId, Flushing, Geometry, Refusal, Slots, Vb};

/// A pool in the midst of a flush. It is read as the pool was when the flush was begun; no other call can be made of it but the next part.
#[derive(Drop)]
pub struct MidServed<D: Disk, M: Metadata> {
    inside: Inside<D, M>,
    // Whether its superblock is written.
    is_named: bool,
    past: Past,
}

impl<D: Disk, M: Metadata> Model for MidServed<D, M> {
    ghost use Rattle.tp_served.specs.Midway as midway;

    ghost Value = { midway.Midst M };

    ghost view = { λ m. record { was = record { cache = m.past.held; besides = m.inside.besides }; left = midway.parts_left m.is_named } };

    ghost invariant = { λ m. midway.IsMidway M.geometry M.stands M.tells M.midway (record { cache = m.past.held; besides = m.inside.besides }) m.is_named m.inside };
}

fn begin_flush_on<D: Disk, M: Metadata, K: Start>(
    inside: Inside<D, M>,
) -> (Inside<D, M>, Option<Result<(), Refusal>>)
    requires { K.start ≡ inside.cache }
    ensures { MatchOption result.1 (IsMidway M.Metadata inside false result.0)
        (λ answer. IsFlushed M.Metadata inside result.0 answer) }
{
    inside.facts();
    let mut pool = inside.begin::<K>();
    let answer = pool.begin_flush();
    let after = end(pool);
    after.facts();
    (after, answer)
}

fn go_on_flush_on<D: Disk, M: Metadata, K: Start>(
    inside: Inside<D, M>,
    past: &Past,
) -> (Inside<D, M>, Option<Result<(), Refusal>>)
    requires start { K.start ≡ past.now.held }
    requires midway { IsMidway M.Metadata (record { cache = past.now.held; besides = inside.besides }) false inside }
    ensures { MatchOption result.1 (IsMidway M.Metadata (record { cache = past.now.held; besides = inside.besides }) true result.0)
        (λ answer. IsFlushed M.Metadata (record { cache = past.now.held; besides = inside.besides }) result.0 answer) }
{
    let mut pool = inside.resume::<K>();
    let answer = pool.go_on_flush();
    let after = end(pool);
    after.facts();
    (after, answer)
}

fn end_flush_on<D: Disk, M: Metadata, K: Start>(
    inside: Inside<D, M>,
    is_named: bool,
    past: &Past,
) -> (Inside<D, M>, Result<(), Refusal>)
    requires start { K.start ≡ past.now.held }
    requires midway { IsMidway M.Metadata (record { cache = past.now.held; besides = inside.besides }) is_named inside }
    ensures { IsFlushed M.Metadata (record { cache = past.now.held; besides = inside.besides }) result.0 result.1 }
{
    let mut pool = inside.resume::<K>();
    let answer = pool.end_flush(is_named);
    let after = end(pool);
    after.facts();
    (after, answer)
}

/// The first part of a flush of a pool that is taken out of what holds it.
pub(crate) fn begin_parts<D: Disk + Drop, M: Metadata + Drop>(
    inside: Inside<D, M>,
) -> Flushing<Served<D, M>, MidServed<D, M>>
    ensures flushing { IsFlushing M.Metadata inside result }
    ensures few { LeavesFewer 3 result }
{
    let past = inside.past();
    let (after, answer) = begin_flush_on::<D, M, Brand>(inside);
    match answer {
        Some(answer) => Flushing::Done(Served::of(after), answer),
        None => Flushing::Midway(MidServed::so_far(after, false, past)),
    }
}

impl<D: Disk + Drop, M: Metadata + Drop> MidServed<D, M> {
    /// The next part. Behind it, where more is left, `sync_ahead` brings to the device what it wrote, while READs go on. Fewer parts are left than before it.
    pub fn go_on(self) -> Flushing<Served<D, M>, MidServed<D, M>>
        ensures flushing { IsFlushing M.Metadata self.was result }
        ensures fewer { LeavesFewer self.left result }
    {
        let MidServed {
            inside,
            is_named,
            past,
        } = self;
        if is_named {
            let (after, answer) = end_flush_on::<D, M, Brand>(inside, is_named, &past);
            return Flushing::Done(Served::of(after), answer);
        }
        let (after, answer) = go_on_flush_on::<D, M, Brand>(inside, &past);
        match answer {
            Some(answer) => Flushing::Done(Served::of(after), answer),
            None => Flushing::Midway(MidServed::so_far(after, true, past)),
        }
    }

    /// All parts that are left, one behind the other.
    pub fn end_flush(self) -> (Served<D, M>, Result<(), Refusal>)
        ensures { IsFlushed M.Metadata self.was result.0 result.1 }
    {
        let MidServed {
            inside,
            is_named,
            past,
        } = self;
        let (after, answer) = end_flush_on::<D, M, Brand>(inside, is_named, &past);
        (Served::of(after), answer)
    }
}

impl<D: Disk, M: Metadata> MidServed<D, M> {
    /// A pool whose flush has come so far since that moment.
    fn so_far(inside: Inside<D, M>, is_named: bool, past: Past) -> MidServed<D, M>
        requires { IsMidway M.Metadata (record { cache = past.held; besides = inside.besides }) is_named inside }
        ensures was { result.was ≡ record { cache = past.held; besides = inside.besides } }
        ensures left { result.left ≡ parts_left is_named }
    {
        MidServed {
            inside,
            is_named,
            past,
        }
    }

    /// The sizes of the pool.
    pub fn geometry(&self) -> Geometry
        ensures { result ≡ M.geometry self.now.was.besides.metadata }
    {
        self.inside.geometry()
    }

    /// The disk under the cache of changed blocks, as it is between two parts.
    pub(crate) fn under(&self) -> &D {
        self.inside.disk()
    }
}

impl<D: Disk, M: Metadata> MidServed<ReadCache<D>, M> {
    /// The disk under the caches, as it is between two parts.
    pub fn disk(&self) -> &D {
        self.under().inner()
    }
}

impl<D: SharedDisk, M: Metadata> MidServed<D, M> {
    /// Reads at most 2048 sectors of a volume, for any of those who look at the pool at once: true where `out` has what `read` gave when the flush was begun. False
    /// says nothing of the pool, and no call of it was made. `out` may hold anything behind it. The range lies in the volume.
    pub fn read_shared(&self, id: DevId, sector: u64, out: &mut [u8]) -> bool
        requires whole { length out.old % 512 ≡ 0 }
        requires range { EndsInVolume (cached M.Metadata) self.now.was id (sector + length out.old / 512) }
        requires most { length out.old / 512 ≤ 2048 }
        ensures length { length out.new ≡ length out.old }
        ensures met { IsTrue result → Meets (cached M.Metadata) self.now.was self.now.was (Read id sector (length out.old / 512)) (Gave (sectors_of out.new)) }
    {
        self.inside.read_midway(id, sector, out)
    }

    /// Lists slots of a volume, for any of those who look at the pool at once: true where `slots` has what `walk` listed when the flush was begun. False says nothing of the pool,
    /// and no call of it was made. `slots` may hold anything behind it.
    pub fn walk_shared(&self, id: DevId, from: Vb, slots: &mut Slots) -> bool
        ensures { IsTrue result → Meets (cached M.Metadata) self.now.was self.now.was (Walk id from) (Listed (listed slots.new.items)) }
    {
        self.inside.walk_midway(id, from, slots)
    }

    /// Brings to the device what the parts so far wrote, while others read, so that the flush in the next part finds little to bring.
    pub fn sync_ahead(&self) {
        self.inside.sync_ahead();
    }
}
