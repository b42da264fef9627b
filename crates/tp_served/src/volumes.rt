//! The calls of a pool by which its volumes are served.
ghost use Rattle.std.specs.Prelude.{◌≡◌, ◌≢◌, ◌+◌, ◌/◌, ◌%◌, ◌<◌, ◌≤◌, IfOk, IsTrue, OnOk, length};
ghost use Rattle.tp_model.specs.Sectors.{sectors_of};
ghost use Rattle.tp_model.specs.Pool.{hold_count, hold_total};
ghost use Rattle.tp_model.specs.Slots.{listed};
ghost use Rattle.tp_holders.specs.Holders.{holds_of};
ghost use Rattle.tp_model.specs.declared.mode.Mode.TheVariants as mode;
ghost use Rattle.tp_model.specs.Calls.{Done, Flush, Found, Gave, Hold, LetGo, Listed, NextId, Read, Sized, Trim, VolumeBlocks, Walk, Write, WriteZeroes};
ghost use Rattle.tp_model.specs.Clauses.{EndsInVolume, Meets, MetBy};
ghost use Rattle.tp_served.specs.AtMetadata.{IsFlushing, StaysInPlace, cached};
ghost use Rattle.tp_served.specs.Midway.{LeavesFewer};
ghost use Rattle.tp_served.specs.Served.{IsUnwritten};

use crate::calls::{
    flush_on, hold_on, let_go_on, next_id_on, read_on, trim_on, volume_blocks_on, walk_on,
    write_on, write_zeroes_on,
};
use crate::flushing::{MidServed, begin_parts};
use crate::served::Served;
use std::marker::Brand;
use tp_disk::{Disk, SharedDisk};
use tp_meta::Metadata;
use tp_model::{
    DevId, Flushing, Geometry, Mode, Refusal, SharedReads, SharedVolumes, Slots, Staged, Vb,
    Volumes, Walked,
};

// The methods have clauses of their own, which whoever knows the type sees: of a WRITE and a TRIM they say more than the trait's.
impl<D: Disk + Drop, M: Metadata + Drop> Volumes for Served<D, M> {
    ghost use Rattle.tp_served.specs.Served as served;

    ghost view = { served.cached M.geometry M.stands M.marks M.room M.changed };

    /// The sizes of the pool.
    fn geometry(&self) -> Geometry
        ensures { result ≡ M.geometry self.now.besides.metadata }
    {
        self.lent.geometry()
    }

    /// What it lets its users do.
    fn mode(&self) -> Mode
        ensures { result ≡ self.now.besides.mode }
    {
        self.lent.mode()
    }

    /// Reads at most 2048 sectors of a volume. The range lies in the volume; where nobody holds it, or there is no such volume, one that lies in the
    /// pool's own size will do.
    ///
    /// Refused by `Failed`, `NoSuchDevice` or `Fault`.
    fn read(&mut self, id: DevId, sector: u64, out: &mut [u8]) -> Result<(), Refusal>
        requires whole { length out.old % 512 ≡ 0 }
        requires range { EndsInVolume (cached M.Metadata) self.old id (sector + length out.old / 512) }
        requires most { length out.old / 512 ≤ 2048 }
        ensures met { MetBy (cached M.Metadata) self.old self.new (Read id sector (length out.old / 512)) (λ _. Gave (sectors_of out.new)) result }
        ensures length { length out.new ≡ length out.old }
    {
        read_on::<D, M, Brand>(&mut self.lent, id, sector, out)
    }

    /// Writes at most 2048 sectors of a volume, and with `fua` keeps them. The range lies in the volume, as that of a read does. A write in place changes
    /// no metadata, so a flush behind it is one of the disk. Where it is refused by `NoMetadataSpace`, the pool wants a check from then on and is
    /// read-only, which a commit keeps.
    ///
    /// Refused by `Failed`, `NoSuchDevice`, `ReadOnly`, `NoMetadataSpace`, `NoDataSpace` or `Fault`.
    fn write(&mut self, id: DevId, sector: u64, bytes: &[u8], fua: bool) -> Result<(), Refusal>
        requires whole { length bytes.now % 512 ≡ 0 }
        requires range { EndsInVolume (cached M.Metadata) self.old id (sector + length bytes.now / 512) }
        requires most { length bytes.now / 512 ≤ 2048 }
        ensures met { MetBy (cached M.Metadata) self.old self.new (Write id sector (sectors_of bytes.now) fua) (λ _. Done) result }
        ensures in_place { OnOk result (StaysInPlace M.Metadata self.old self.new (Write id sector (sectors_of bytes.now) fua)) }
        // A pool that is read-only or has failed refuses it, and its disk is only read.
        ensures read_only { self.old.besides.mode ≢ mode.Writable → IsUnwritten self.old self.new result }
    {
        write_on::<D, M, Brand>(&mut self.lent, id, sector, bytes, fua)
    }

    /// Takes the data blocks of the blocks of a volume that lie wholly in a range of at most 2048 sectors, and with `fua` keeps that. Blocks that lie in
    /// the range in part stay as they are. The range lies in the volume. Where it is refused by `NoMetadataSpace`, the pool wants a check from then on and
    /// is read-only, which a commit keeps.
    ///
    /// Refused by `Failed`, `NoSuchDevice`, `ReadOnly`, `NoMetadataSpace` or `Fault`.
    fn trim(&mut self, id: DevId, sector: u64, count: u64, fua: bool) -> Result<(), Refusal>
        requires range { EndsInVolume (cached M.Metadata) self.old id (sector + count) }
        requires most { count ≤ 2048 }
        ensures met { MetBy (cached M.Metadata) self.old self.new (Trim id sector count fua) (λ _. Done) result }
        // A pool that is read-only or has failed refuses it, and its disk is only read.
        ensures read_only { self.old.besides.mode ≢ mode.Writable → IsUnwritten self.old self.new result }
    {
        trim_on::<D, M, Brand>(&mut self.lent, id, sector, count, fua)
    }

    /// Makes at most 2048 sectors of a volume zero, and with `fua` keeps that. With `no_hole` each of them has a data block then. Else blocks that lie
    /// wholly in the range have none, and one that lies in it in part has one where it had one. The range lies in the volume. Where it is refused by
    /// `NoMetadataSpace`, the pool wants a check from then on and is read-only, which a commit keeps.
    ///
    /// Refused by `Failed`, `NoSuchDevice`, `ReadOnly`, `NoMetadataSpace`, `NoDataSpace` or `Fault`.
    fn write_zeroes(
        &mut self,
        id: DevId,
        sector: u64,
        count: u64,
        no_hole: bool,
        fua: bool,
    ) -> Result<(), Refusal>
        requires range { EndsInVolume (cached M.Metadata) self.old id (sector + count) }
        requires most { count ≤ 2048 }
        ensures { MetBy (cached M.Metadata) self.old self.new (WriteZeroes id sector count no_hole fua) (λ _. Done) result }
    {
        write_zeroes_on::<D, M, Brand>(&mut self.lent, id, sector, count, no_hole, fua)
    }

    /// Keeps all that was done. In a read-only pool all is kept already.
    ///
    /// Refused by `Failed` or `Fault`.
    fn flush(&mut self) -> Result<(), Refusal>
        ensures { MetBy (cached M.Metadata) self.old self.new Flush (λ _. Done) result }
    {
        flush_on::<D, M, Brand>(&mut self.lent)
    }

    /// The least id of a volume that is `from` or more, if there is one. It writes nothing.
    ///
    /// Refused by `Failed` or `Fault`.
    fn next_id(&mut self, from: DevId) -> Result<Option<DevId>, Refusal>
        ensures { MetBy (cached M.Metadata) self.old self.new (NextId from) (λ found. Found found) result }
    {
        next_id_on::<D, M, Brand>(&mut self.lent, from)
    }

    /// How many blocks a volume has. It writes nothing, and makes no call of the disk for a volume that is held.
    ///
    /// Refused by `Failed`, `NoSuchDevice`, `Fault` or `Damaged`.
    fn volume_blocks(&mut self, id: DevId) -> Result<u32, Refusal>
        ensures told { MetBy (cached M.Metadata) self.old self.new (VolumeBlocks id) (λ blocks. Sized blocks) result }
        ensures most { IfOk result (λ blocks. blocks ≤ 16777216) }
    {
        volume_blocks_on::<D, M, Brand>(&mut self.lent, id)
    }

    /// Holds a volume, which is Busy then. At most 128 holds stand at once.
    ///
    /// Refused by `Failed`, `NoSuchDevice` or `Fault`.
    fn hold(&mut self, id: DevId) -> Result<(), Refusal>
        requires { hold_total (holds_of self.old.besides.holders) < 128 }
        ensures { MetBy (cached M.Metadata) self.old self.new (Hold id) (λ _. Done) result }
    {
        hold_on::<D, M, Brand>(&mut self.lent, id)
    }

    /// Lets go of a volume that is held.
    fn let_go(&mut self, id: DevId)
        requires { 0 < hold_count (holds_of self.old.besides.holders) id }
        ensures { Meets (cached M.Metadata) self.old self.new (LetGo id) Done }
    {
        let_go_on::<D, M, Brand>(&mut self.lent, id);
    }

    ghost laws = { served.laws M.geometry M.stands M.marks M.room M.changed M.trees (λ m disk now kept st. ((M.within m disk now kept st).limits, (M.within m disk now kept st).volumes_now, (M.within m disk now kept st).copies)) M.bounded M.one };
}

impl<D: Disk + Drop, M: Metadata + Drop> Walked for Served<D, M> {
    /// Lists the slots of a volume with blocks from `from` on, in the order of their blocks, each with the number of its data block. It lists 252 where
    /// there are so many, and the next call asks for those from behind the last one; where it lists fewer, there are no more. It writes nothing. Behind an
    /// `Err` `slots` may hold anything.
    ///
    /// Refused by `Failed`, `NoSuchDevice`, `Fault` or `Damaged`.
    fn walk(&mut self, id: DevId, from: Vb, slots: &mut Slots) -> Result<(), Refusal>
        ensures { MetBy (cached M.Metadata) self.old self.new (Walk id from) (λ _. Listed (listed slots.new.items)) result }
    {
        walk_on::<D, M, Brand>(&mut self.lent, id, from, slots)
    }
}

impl<D: SharedDisk + Drop, M: Metadata + Drop> SharedVolumes for Served<D, M> {
    /// Reads at most 2048 sectors of a volume, for any of those who look at the pool at once: true where `out` has what `read` would give. False says
    /// nothing of the pool, and no call of it was made: `read` is to be asked then, as where a metadata block is not in memory, a disk fails, the
    /// pool has failed, or there is no such volume. `out` may hold anything behind it. The range lies in the volume.
    fn read_shared(&self, id: DevId, sector: u64, out: &mut [u8]) -> bool
        requires whole { length out.old % 512 ≡ 0 }
        requires range { EndsInVolume (cached M.Metadata) self.now id (sector + length out.old / 512) }
        requires most { length out.old / 512 ≤ 2048 }
        ensures met { IsTrue result → Meets (cached M.Metadata) self.now self.now (Read id sector (length out.old / 512)) (Gave (sectors_of out.new)) }
        ensures length { length out.new ≡ length out.old }
    {
        self.lent.read_shared(id, sector, out)
    }

    /// Lists slots of a volume, for any of those who look at the pool at once: true where `slots` has what `walk` would list. False says nothing of the pool, and no call of it
    /// was made: `walk` is to be asked then, as where a metadata block is not in memory, a disk fails, the pool has failed, or there is no such volume. `slots` may hold anything
    /// behind it.
    fn walk_shared(&self, id: DevId, from: Vb, slots: &mut Slots) -> bool
        ensures { IsTrue result → Meets (cached M.Metadata) self.now self.now (Walk id from) (Listed (listed slots.new.items)) }
    {
        self.lent.walk_shared(id, from, slots)
    }

    /// Brings to the device what was written so far, for a flush that comes next, while others read. Where metadata has changed it does so only where that is a MiB
    /// or more: a commit brings little data and its metadata by the same two syncs.
    fn sync_ahead(&self) {
        self.lent.sync_ahead();
    }
}

impl<D: SharedDisk + Drop, M: Metadata + Drop> SharedReads<Served<D, M>> for MidServed<D, M> {
    ghost of = { λ m. m.was };

    ghost left = { λ m. m.left };

    fn geometry_beside(&self) -> Geometry {
        self.geometry()
    }

    fn read_beside(&self, id: DevId, sector: u64, out: &mut [u8]) -> bool {
        self.read_shared(id, sector, out)
    }

    fn walk_beside(&self, id: DevId, from: Vb, slots: &mut Slots) -> bool {
        self.walk_shared(id, from, slots)
    }

    fn sync_beside(&self) {
        self.sync_ahead();
    }
}

impl<D: SharedDisk + Drop, M: Metadata + Drop> Staged for Served<D, M> {
    type Midway = MidServed<D, M>;

    /// The first part of a flush: done, where that is all of it, or in its midst. Behind it `MidServed::sync_ahead` brings to the device what it wrote, while READs go on.
    /// The whole is one flush, with its answers, and a stop at any moment of it leaves what one of a flush leaves. Behind this part two are left at most.
    fn begin_flush(self) -> Flushing<Served<D, M>, MidServed<D, M>>
        ensures flushing { IsFlushing M.Metadata self result }
        ensures few { LeavesFewer 3 result }
    {
        let Served { lent } = self;
        begin_parts(lent.into_inside())
    }

    fn go_on(midway: MidServed<D, M>) -> Flushing<Served<D, M>, MidServed<D, M>> {
        midway.go_on()
    }

    fn end_flush(midway: MidServed<D, M>) -> (Served<D, M>, Result<(), Refusal>) {
        midway.end_flush()
    }
}
