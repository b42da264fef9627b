//! The pool.
ghost use Rattle.std.specs.Prelude.{ℕ, ◌≡◌, ◌≢◌, ◌⊎◌, ◌+◌, ◌*◌, ◌^◌, ◌/◌, ◌%◌, ◌<◌, ◌≤◌, IsTrue, IfErr, MatchResult, OnOk, OnErr, Err, IfOk, IfSome, IsSome, false, is_some, length, not, true, []};
ghost use Rattle.tp_model.specs.Geometry.{sectors_of_image};
ghost use Rattle.tp_model.specs.Sectors.{sectors_of};
ghost use Rattle.tp_model.specs.Calls.{Call, Done, Flush, Found, Gave, Hold, LetGo, NextId, Read, Refused, Sized, VolumeBlocks, Write, holds_after, is_failed, is_read_only};
ghost use Rattle.tp_model.specs.declared.mode.Mode.TheVariants as mode;
ghost use Rattle.tp_model.specs.Pool.{PlainPool, hold_count};
ghost use Rattle.tp_model.specs.Refusals.{is_fault};
ghost use Rattle.tp_counts.specs.StoreErrors as errors;
ghost use Rattle.tp_model.specs.Disk.{IsSettled, after_read, seen};
ghost use Rattle.std.specs.Option.{option_map};
ghost use Rattle.tp_model.specs.Told.{told_blocks};
ghost use Rattle.tp_sharing.specs.Volumes.{device_of, size_of};
ghost use Rattle.tp_stored.specs.Contents.{Contents, IsOpened};
ghost use Rattle.tp_shown.specs.Shown.{blocks_touched};
ghost use Rattle.tp_meta.specs.Metadata.{AreInside, AreTold};
ghost use Rattle.tp_holders.specs.Holders.{LeftTold, blocks_held, holds_of};
ghost use Rattle.tp_pool.specs.AtMetadata.{AnswersSo, FlushesSo, HasFlushed, LacksRoom, LiesIn, PoolAnswered, PoolCalled, PoolClosed, PoolRefused, PoolTried, StaysInPlace, served, shows, view};
ghost use Rattle.tp_pool.specs.Held.{EndsShort, Fits, IsAllKept, IsFlush, IsTried, blocks_of_held, failed_by};
ghost use Rattle.tp_pool.specs.Flushes.{HasChanged};
ghost use Rattle.tp_model.specs.Clauses.{EndsInVolume, Flushes, IsAnswered};
ghost use Rattle.tp_pool.specs.Besides.{besides_of, pool_on};
ghost use Rattle.tp_pool.specs.Checked.{HasOnlyRead, IsOnlyRead};

use crate::reading::read_range;
use crate::room::{keep, lacks_metadata, make_room, reclaim, test_room};
use crate::sectors::{MOST_BLOCKS, SECTOR, block_of, blocks_known, first_of, touched};
use crate::writing::put_blocks;
use std::marker::Model;
use tp_blocks::Blocks;
use tp_counts::StoreError;
use tp_disk::{Disk, Fault};
use tp_holders::{Holder, Holders, blocks_held, release};
use tp_meta::{Home, Metadata};
use tp_model::{DevId, Geometry, Mode, Refusal};

pub(crate) fn is_failed(mode: Mode) -> bool
    ensures { result ≡ is_failed mode }
{
    match mode {
        Mode::Failed => true,
        Mode::Writable | Mode::ReadOnly => false,
    }
}

pub(crate) fn is_read_only(mode: Mode) -> bool
    ensures { result ≡ is_read_only mode }
{
    match mode {
        Mode::ReadOnly => true,
        Mode::Writable | Mode::Failed => false,
    }
}

/// A pool over a disk. No call takes memory.
///
/// Where the disk fails in a call that writes, the pool is failed until it is opened again. Whatever a call answers, a stop at any of its
/// moments leaves a pool (`stops_leave_pools`).
#[derive(Drop)]
pub struct Pool<D: Disk, M: Metadata> {
    pub(crate) disk: D,
    pub(crate) metadata: M,
    pub(crate) blocks: Blocks,
    pub(crate) holders: Holders,
    pub(crate) mode: Mode,
}

impl<D: Disk, M: Metadata> Model for Pool<D, M> {
    ghost use Rattle.std.specs.Prelude.{◌≡◌, ◌≤◌};
    ghost use Rattle.tp_model.specs.Geometry.{sectors_of_image};
    ghost use Rattle.tp_pool.specs.Held as held;

    ghost Value = { held.Held M };

    ghost view = { λ p. record { disk = D.state p.disk; metadata = p.metadata; holders = p.holders.items; mode = p.mode } };

    ghost invariant = { λ p. (p.blocks ≡ M.geometry p.metadata) × (sectors_of_image (M.geometry p.metadata) ≤ (D.state p.disk).size) };
}

/// What a pool has besides its disk.
#[derive(Drop)]
pub struct Besides<M: Metadata> {
    pub(crate) metadata: M,
    pub(crate) blocks: Blocks,
    holders: Holders,
    pub(crate) mode: Mode,
}

impl<M: Metadata> Model for Besides<M> {
    ghost use Rattle.std.specs.Prelude.{◌≡◌};
    ghost use Rattle.tp_pool.specs.Besides as besides;

    ghost Value = { besides.Besides M };

    ghost view = { λ b. record { metadata = b.metadata; holders = b.holders.items; mode = b.mode } };

    ghost invariant = { λ b. b.blocks ≡ M.geometry b.metadata };
}

impl<M: Metadata> Besides<M> {
    /// The sizes of the pool.
    pub fn geometry(&self) -> Geometry
        ensures { result ≡ M.geometry self.now.metadata }
    {
        self.metadata.geometry()
    }

    /// What the pool lets its users do.
    pub fn mode(&self) -> Mode
        ensures { result ≡ self.now.mode }
    {
        self.mode
    }
}

impl<D: Disk, M: Metadata> Pool<D, M> {
    /// Takes the disk out of the pool.
    pub fn take_apart(self) -> (D, Besides<M>)
        ensures disk { D.state result.0 ≡ self.disk }
        ensures besides { result.1 ≡ besides_of self }
        ensures room { sectors_of_image (M.geometry self.metadata) ≤ self.disk.size }
    {
        let Pool {
            disk,
            metadata,
            blocks,
            holders,
            mode,
        } = self;
        let besides = Besides {
            metadata,
            blocks,
            holders,
            mode,
        };
        (disk, besides)
    }

    /// A pool on another disk, which goes on where the one stood that it was taken out of.
    pub fn put_together(disk: D, besides: Besides<M>) -> Pool<D, M>
        requires { sectors_of_image (M.geometry besides.metadata) ≤ (D.state disk).size }
        ensures { result ≡ pool_on (D.state disk) besides }
    {
        let Besides {
            metadata,
            blocks,
            holders,
            mode,
        } = besides;
        Pool {
            disk,
            metadata,
            blocks,
            holders,
            mode,
        }
    }

    /// The sizes of the pool.
    pub fn geometry(&self) -> Geometry
        ensures { result ≡ M.geometry self.now.metadata }
    {
        self.metadata.geometry()
    }

    /// What it lets its users do.
    pub fn mode(&self) -> Mode
        ensures { result ≡ self.now.mode }
    {
        self.mode
    }

    /// The disk that it stands on.
    pub fn disk(&self) -> &D
        ensures { D.state result.now ≡ self.now.disk }
    {
        &self.disk
    }

    /// A pool from the metadata that stand on a disk, of which `blocks` has the sizes.
    pub fn over(disk: D, metadata: M, blocks: Blocks) -> Pool<D, M>
        requires blocks { blocks ≡ M.geometry metadata }
        requires disk { sectors_of_image (M.geometry metadata) ≤ (D.state disk).size }
        ensures disk { result.disk ≡ D.state disk }
        ensures metadata { result.metadata ≡ metadata }
        ensures holders { result.holders ≡ [] }
        ensures shows { (now kept : Contents) (s : PlainPool) → M.stands metadata (D.state disk) now kept → IsOpened (M.geometry metadata) now (seen (D.state disk).cells) s
            → now.meta_used + 128 ≤ (M.geometry metadata).metadata_blocks → (IsTrue now.needs_check → IsAllKept now kept (D.state disk)) → shows M.Metadata result s }
    {
        let mode = if metadata.needs_check() {
            Mode::ReadOnly
        } else {
            Mode::Writable
        };
        Pool {
            disk,
            metadata,
            blocks,
            holders: Holders::new(),
            mode,
        }
    }

    /// Whether there is a volume of this id.
    pub(crate) fn has(&mut self, id: DevId) -> Result<bool, StoreError>
        ensures held { self.new ≡ record self.old { disk = after_read (not (errors.is_fault result)) self.old.disk } }
        ensures told { IfOk result (λ answer. (now kept : Contents) → M.stands self.old.metadata self.old.disk now kept → answer ≡ is_some (device_of id now.volumes)) }
        ensures damaged { result ≡ Err StoreError.Damaged → (now kept : Contents) → M.stands self.old.metadata self.old.disk now kept → ⊥ }
        ensures low { id < 2 ^ 24 }
    {
        let mapped = self.metadata.mapped(&mut self.disk, id)?;
        Ok(mapped.is_some())
    }

    /// How many blocks a volume has, if it is there.
    pub(crate) fn size(&mut self, id: DevId) -> Result<Option<u32>, StoreError>
        ensures held { self.new ≡ record self.old { disk = after_read (not (errors.is_fault result)) self.old.disk } }
        ensures told { IfOk result (λ answer. (now kept : Contents) → M.stands self.old.metadata self.old.disk now kept → answer ≡ option_map (told_blocks (M.geometry self.old.metadata)) (size_of id now.volumes)) }
        ensures few { IfOk result (λ answer. IfSome answer (λ blocks. blocks ≤ 2 ^ 24)) }
        ensures damaged { result ≡ Err StoreError.Damaged → (now kept : Contents) → M.stands self.old.metadata self.old.disk now kept → ⊥ }
    {
        self.metadata.size(&mut self.disk, id)
    }

    /// Reads sectors of a volume. The range lies in the volume. Where nobody holds it, or there is no such volume, one that lies in the pool's own size
    /// will do.
    ///
    /// Refused by `Failed`, `NoSuchDevice` or `Fault`.
    pub fn read(&mut self, id: DevId, sector: u64, out: &mut [u8]) -> Result<(), Refusal>
        requires whole { length out.old % 512 ≡ 0 }
        requires range { EndsInVolume (view M.Metadata) self.old id (sector + length out.old / 512) }
        ensures called { MatchResult result
            (λ _. PoolCalled M.Metadata self.old self.new (Read id sector (length out.old / 512)) (Gave (sectors_of out.new)))
            (λ reason. PoolRefused M.Metadata self.old self.new (Read id sector (length out.old / 512)) reason) }
        ensures length { length out.new ≡ length out.old }
        ensures answered { MatchResult result
            (λ _. IsAnswered (view M.Metadata) self.old self.new (Read id sector (length out.old / 512)) (Gave (sectors_of out.new)))
            (λ reason. IsAnswered (view M.Metadata) self.old self.new (Read id sector (length out.old / 512)) (Refused reason)) }
        ensures flushes { MatchResult result
            (λ _. Flushes (served M.Metadata) self.old self.new (Read id sector (length out.old / 512)) (Gave (sectors_of out.new)))
            (λ reason. Flushes (served M.Metadata) self.old self.new (Read id sector (length out.old / 512)) (Refused reason)) }
        ensures held { self.new ≡ record self.old { disk = after_read (not (is_fault result)) self.old.disk } }
    {
        if is_failed(self.mode) {
            return Err(Refusal::Failed);
        }
        let is_there = read_range(
            &mut self.disk,
            &self.metadata,
            &self.blocks,
            false,
            id,
            sector,
            out,
        )?;
        if !is_there {
            return Err(Refusal::NoSuchDevice);
        }
        Ok(())
    }

    /// The least id of a volume that is `from` or more, if there is one. It writes nothing.
    ///
    /// Refused by `Failed` or `Fault`.
    pub fn next_id(&mut self, from: DevId) -> Result<Option<DevId>, Refusal>
        ensures called { MatchResult result
            (λ found. PoolCalled M.Metadata self.old self.new (NextId from) (Found found))
            (λ reason. PoolRefused M.Metadata self.old self.new (NextId from) reason) }
        ensures answered { MatchResult result
            (λ found. IsAnswered (view M.Metadata) self.old self.new (NextId from) (Found found))
            (λ reason. IsAnswered (view M.Metadata) self.old self.new (NextId from) (Refused reason)) }
        ensures flushes { MatchResult result
            (λ found. Flushes (served M.Metadata) self.old self.new (NextId from) (Found found))
            (λ reason. Flushes (served M.Metadata) self.old self.new (NextId from) (Refused reason)) }
        ensures held { self.new ≡ record self.old { disk = after_read (not (is_fault result)) self.old.disk } }
    {
        if is_failed(self.mode) {
            return Err(Refusal::Failed);
        }
        Ok(self.metadata.next_id(&mut self.disk, from)?)
    }

    /// Holds a volume, which is Busy then. At most 128 holds stand at once.
    ///
    /// Refused by `Failed`, `NoSuchDevice` or `Fault`.
    pub fn hold(&mut self, id: DevId) -> Result<(), Refusal>
        requires { length self.old.holders < 128 }
        ensures called { PoolAnswered M.Metadata self.old self.new (Hold id) result }
        ensures answered { AnswersSo M.Metadata self.old self.new (Hold id) result }
        ensures flushes { FlushesSo M.Metadata self.old self.new (Hold id) result }
        ensures held { self.new ≡ record self.old { disk = after_read (not (is_fault result)) self.old.disk; holders = self.new.holders } }
        ensures refused { OnErr result (self.new.holders ≡ self.old.holders) }
        ensures holds { OnOk result (holds_of self.new.holders ≡ holds_after (holds_of self.old.holders) (Hold id) Done) }
        // Who holds a volume already knows its size as before.
        ensures sizes { (other : ℕ) → 0 < hold_count (holds_of self.old.holders) other → blocks_held self.new.holders other ≡ blocks_held self.old.holders other }
    {
        if is_failed(self.mode) {
            return Err(Refusal::Failed);
        }
        let Some(blocks) = self.size(id)? else {
            return Err(Refusal::NoSuchDevice);
        };
        self.holders.push(Holder::of(id, blocks));
        Ok(())
    }

    /// How many blocks a volume has. It writes nothing, and makes no call of the disk for a volume that is held.
    ///
    /// Refused by `Failed`, `NoSuchDevice`, `Fault` or `Damaged`.
    pub fn volume_blocks(&mut self, id: DevId) -> Result<u32, Refusal>
        ensures called { MatchResult result
            (λ blocks. PoolCalled M.Metadata self.old self.new (VolumeBlocks id) (Sized blocks))
            (λ reason. PoolRefused M.Metadata self.old self.new (VolumeBlocks id) reason) }
        ensures answered { MatchResult result
            (λ blocks. IsAnswered (view M.Metadata) self.old self.new (VolumeBlocks id) (Sized blocks))
            (λ reason. IsAnswered (view M.Metadata) self.old self.new (VolumeBlocks id) (Refused reason)) }
        ensures flushes { MatchResult result
            (λ blocks. Flushes (served M.Metadata) self.old self.new (VolumeBlocks id) (Sized blocks))
            (λ reason. Flushes (served M.Metadata) self.old self.new (VolumeBlocks id) (Refused reason)) }
        ensures held { self.new ≡ record self.old { disk = after_read (not (is_fault result)) self.old.disk } }
        ensures known { 0 < hold_count (holds_of self.old.holders) id → IfOk result (λ blocks. blocks ≡ blocks_of_held (M.geometry self.old.metadata) self.old.holders id) }
        ensures quiet { 0 < hold_count (holds_of self.old.holders) id → self.new ≡ self.old }
        ensures most { IfOk result (λ blocks. blocks ≤ 2 ^ 24) }
    {
        if is_failed(self.mode) {
            return Err(Refusal::Failed);
        }
        if let Some(blocks) = blocks_held(&self.holders, id) {
            return Ok(blocks_known(&self.metadata.geometry(), blocks));
        }
        let Some(blocks) = self.size(id)? else {
            return Err(Refusal::NoSuchDevice);
        };
        Ok(blocks)
    }

    /// Lets go of a volume that is held.
    pub fn let_go(&mut self, id: DevId)
        requires { 0 < hold_count (holds_of self.old.holders) id }
        ensures called { PoolCalled M.Metadata self.old self.new (LetGo id) Done }
        ensures answered { IsAnswered (view M.Metadata) self.old self.new (LetGo id) Done }
        ensures flushes { Flushes (served M.Metadata) self.old self.new (LetGo id) Done }
        ensures held { self.new ≡ record self.old { holders = self.new.holders } }
        ensures holds { holds_of self.new.holders ≡ holds_after (holds_of self.old.holders) (LetGo id) Done }
        ensures sizes { LeftTold self.old.holders self.new.holders }
    {
        release(&mut self.holders, id);
    }

    /// The pool is failed where the disk failed, or where what it gave is no pool's.
    pub(crate) fn settle(&mut self, answer: Result<(), Refusal>) -> Result<(), Refusal>
        ensures same { result ≡ answer }
        ensures ok { OnOk answer (self.new ≡ self.old) }
        ensures err { IfErr answer (λ reason. self.new ≡ failed_by reason self.old) }
    {
        if let Err(Refusal::Fault | Refusal::Damaged) = answer {
            self.mode = Mode::Failed;
        }
        answer
    }

    /// Flushes or closes.
    fn keep_or_fail(&mut self) -> Result<(), Refusal>
        ensures called { (call : Call) → IsFlush call → PoolAnswered M.Metadata self.old self.new call result }
        ensures answered { (call : Call) → IsFlush call → AnswersSo M.Metadata self.old self.new call result }
        ensures flushes { (call : Call) → IsFlush call → FlushesSo M.Metadata self.old self.new call result }
        ensures held { self.new ≡ record self.old { disk = self.new.disk; metadata = self.new.metadata; mode = self.new.mode } }
        ensures geometry { M.geometry self.new.metadata ≡ M.geometry self.old.metadata }
        ensures read_only { self.old.mode ≡ mode.ReadOnly → self.new ≡ self.old }
        ensures settled { OnOk result ((s : PlainPool) → shows M.Metadata self.old s → IsSettled self.new.disk.cells) }
        ensures failed { self.old.mode ≡ mode.Failed → (result ≡ Err Refusal.Failed) × (self.new ≡ self.old) }
        ensures only { IfErr result (λ reason. (reason ≡ Refusal.Failed) ⊎ (reason ≡ Refusal.Fault)) }
    {
        match self.mode {
            Mode::Failed => Err(Refusal::Failed),
            Mode::ReadOnly => Ok(()),
            Mode::Writable => match self.metadata.commit(&mut self.disk) {
                Ok(()) => Ok(()),
                Err(Fault) => {
                    self.mode = Mode::Failed;
                    Err(Refusal::Fault)
                }
            },
        }
    }

    /// Keeps all that was done. In a read-only pool all is kept already.
    ///
    /// Refused by `Failed` or `Fault`.
    pub fn flush(&mut self) -> Result<(), Refusal>
        ensures called { PoolAnswered M.Metadata self.old self.new Flush result }
        ensures answered { AnswersSo M.Metadata self.old self.new Flush result }
        ensures flushes { FlushesSo M.Metadata self.old self.new Flush result }
        ensures held { self.new ≡ record self.old { disk = self.new.disk; metadata = self.new.metadata; mode = self.new.mode } }
        ensures geometry { M.geometry self.new.metadata ≡ M.geometry self.old.metadata }
        ensures read_only { self.old.mode ≡ mode.ReadOnly → self.new ≡ self.old }
        ensures settled { OnOk result ((s : PlainPool) → shows M.Metadata self.old s → IsSettled self.new.disk.cells) }
    {
        self.keep_or_fail()
    }

    /// Refuses a call for want of metadata room: from now on the pool wants a check and is read-only, and that is kept.
    pub(crate) fn refuse_for_room(&mut self) -> Result<(), Refusal>
        requires works { self.old.mode ≡ mode.Writable }
        ensures called { (call : Call) → LacksRoom M.Metadata self.old call → PoolTried M.Metadata self.old self.new call result }
        ensures ends { EndsShort self.old self.new result }
        ensures held { self.new ≡ record self.old { disk = self.new.disk; metadata = self.new.metadata; mode = self.new.mode } }
        ensures geometry { M.geometry self.new.metadata ≡ M.geometry self.old.metadata }
        ensures flushes { (self.old.disk.flushes ≤ self.new.disk.flushes) × (self.new.disk.flushes ≤ self.old.disk.flushes + 2) }
        ensures committed { result ≡ Err Refusal.NoMetadataSpace → self.new.disk.flushes ≡ self.old.disk.flushes + 2 }
        ensures unchanged { result ≡ Err Refusal.NoMetadataSpace → M.changed self.new.metadata ≡ false }
    {
        self.metadata.set_needs_check();
        keep(&mut self.disk, &mut self.metadata)?;
        self.mode = Mode::ReadOnly;
        Err(Refusal::NoMetadataSpace)
    }

    /// Writes sectors to a pool that works, and with `fua` keeps them.
    fn try_write(&mut self, id: DevId, sector: u64, bytes: &[u8], fua: bool) -> Result<(), Refusal>
        requires whole { length bytes.now % 512 ≡ 0 }
        requires range { Fits (M.geometry self.old.metadata) (sector + length bytes.now / 512) }
        requires lies { LiesIn M.Metadata self.old id (sector + length bytes.now / 512) }
        requires most { length bytes.now / 512 ≤ 2048 }
        requires works { is_failed self.old.mode ≡ false }
        ensures called { PoolTried M.Metadata self.old self.new (Write id sector (sectors_of bytes.now) fua) result }
        ensures tried { IsTried self.old self.new (Write id sector (sectors_of bytes.now) fua) result }
        ensures held { self.new ≡ record self.old { disk = self.new.disk; metadata = self.new.metadata; mode = self.new.mode } }
        ensures geometry { M.geometry self.new.metadata ≡ M.geometry self.old.metadata }
        ensures flushes { HasFlushed M.Metadata self.old self.new.disk (Write id sector (sectors_of bytes.now) fua) }
        ensures changes { HasChanged M.changed self.old.metadata self.new.metadata (Write id sector (sectors_of bytes.now) fua) result }
        ensures in_place { OnOk result (StaysInPlace M.Metadata self.old self.new (Write id sector (sectors_of bytes.now) fua)) }
        ensures read_only { is_read_only self.old.mode ≡ true → HasOnlyRead self.old self.new result }
    {
        let count = bytes.len() as u64 / SECTOR;
        let mut places = [None; MOST_BLOCKS];
        let homes = &mut places[..touched(&self.geometry(), sector, count)];
        if !self.find(id, sector, count, homes)? {
            return Err(Refusal::NoSuchDevice);
        }
        if is_read_only(self.mode) {
            return Err(Refusal::ReadOnly);
        }
        if count == 0 {
            return Ok(());
        }
        self.put(id, sector, bytes, homes, fua)
    }

    /// Looks up the blocks of a range of sectors, 2048 at most. It tells whether there is such a volume.
    pub(crate) fn find(
        &mut self,
        id: DevId,
        sector: u64,
        count: u64,
        homes: &mut [Option<Home>],
    ) -> Result<bool, StoreError>
        requires range { Fits (M.geometry self.old.metadata) (sector + count) }
        requires few { length homes.old ≤ 17 }
        requires homes { length homes.old ≡ blocks_touched (M.geometry self.old.metadata) sector count }
        ensures held { self.new ≡ record self.old { disk = after_read (not (errors.is_fault result)) self.old.disk } }
        ensures told { IfOk result (λ answer. (now kept : Contents) → M.stands self.old.metadata self.old.disk now kept → answer ≡ is_some (device_of id now.volumes)) }
        ensures damaged { result ≡ Err StoreError.Damaged → (now kept : Contents) → M.stands self.old.metadata self.old.disk now kept → ⊥ }
        ensures length { length homes.new ≡ length homes.old }
        ensures homes { OnOk result (0 < count → (now kept : Contents) → M.stands self.old.metadata self.old.disk now kept
            → AreTold id (sector / (M.geometry self.old.metadata).block_sectors) now.volumes (M.marks self.old.metadata) (length homes.old) homes.new) }
        ensures places { OnOk result (AreInside (M.geometry self.old.metadata).data_blocks (length homes.old) homes.new) }
    {
        let first = first_of(&self.metadata.geometry(), sector, count);
        self.metadata.look_up_run(&mut self.disk, id, first, homes)
    }

    /// Writes some sectors of a volume that there is, of which the blocks stand there.
    fn put(
        &mut self,
        id: DevId,
        sector: u64,
        bytes: &[u8],
        homes: &mut [Option<Home>],
        fua: bool,
    ) -> Result<(), Refusal>
        requires whole { length bytes.now % 512 ≡ 0 }
        requires some { 0 < length bytes.now / 512 }
        requires range { Fits (M.geometry self.old.metadata) (sector + length bytes.now / 512) }
        requires lies { LiesIn M.Metadata self.old id (sector + length bytes.now / 512) }
        requires most { length bytes.now / 512 ≤ 2048 }
        requires few { length homes.old ≤ 17 }
        requires homes { length homes.old ≡ blocks_touched (M.geometry self.old.metadata) sector (length bytes.now / 512) }
        requires told { (now kept : Contents) → M.stands self.old.metadata self.old.disk now kept
            → AreTold id (sector / (M.geometry self.old.metadata).block_sectors) now.volumes (M.marks self.old.metadata) (length homes.old) homes.old }
        requires places { AreInside (M.geometry self.old.metadata).data_blocks (length homes.old) homes.old }
        requires works { self.old.mode ≡ mode.Writable }
        ensures called { ((now kept : Contents) → M.stands self.old.metadata self.old.disk now kept → IsSome (device_of id now.volumes)) → PoolTried M.Metadata self.old self.new (Write id sector (sectors_of bytes.now) fua) result }
        ensures tried { IsTried self.old self.new (Write id sector (sectors_of bytes.now) fua) result }
        ensures held { self.new ≡ record self.old { disk = self.new.disk; metadata = self.new.metadata; mode = self.new.mode } }
        ensures geometry { M.geometry self.new.metadata ≡ M.geometry self.old.metadata }
        ensures flushes { ((now kept : Contents) → M.stands self.old.metadata self.old.disk now kept → IsSome (device_of id now.volumes)) → HasFlushed M.Metadata self.old self.new.disk (Write id sector (sectors_of bytes.now) fua) }
        ensures changes { HasChanged M.changed self.old.metadata self.new.metadata (Write id sector (sectors_of bytes.now) fua) result }
        ensures in_place { ((now kept : Contents) → M.stands self.old.metadata self.old.disk now kept → IsSome (device_of id now.volumes))
            → OnOk result (StaysInPlace M.Metadata self.old self.new (Write id sector (sectors_of bytes.now) fua)) }
    {
        if lacks_metadata(&self.metadata) {
            return self.refuse_for_room();
        }
        let taken = test_room(&self.metadata, homes)?;
        let first = block_of(&self.metadata.geometry(), sector);
        make_room(&mut self.disk, &mut self.metadata, taken, id, first, homes)?;
        put_blocks(
            &mut self.disk,
            &mut self.metadata,
            &mut self.blocks,
            id,
            sector,
            bytes,
            homes,
        )?;
        if !fua {
            return Ok(());
        }
        keep(&mut self.disk, &mut self.metadata)
    }

    /// Writes at most 2048 sectors of a volume, and with `fua` keeps them. The range lies in the volume.
    ///
    /// Where 512 metadata blocks are free and as many data blocks as it takes, it flushes the disk with `fua` alone. Elsewhere it commits first, which may
    /// free some. A write in place changes no metadata, so a flush behind it is one of the disk. Where it is refused by `NoMetadataSpace`, the pool wants
    /// a check from then on and is read-only, which a commit keeps.
    ///
    /// Refused by `Failed`, `NoSuchDevice`, `ReadOnly`, `NoMetadataSpace`, `NoDataSpace` or `Fault`.
    pub fn write(&mut self, id: DevId, sector: u64, bytes: &[u8], fua: bool) -> Result<(), Refusal>
        requires whole { length bytes.now % 512 ≡ 0 }
        requires range { EndsInVolume (view M.Metadata) self.old id (sector + length bytes.now / 512) }
        requires most { length bytes.now / 512 ≤ 2048 }
        ensures called { PoolAnswered M.Metadata self.old self.new (Write id sector (sectors_of bytes.now) fua) result }
        ensures answered { AnswersSo M.Metadata self.old self.new (Write id sector (sectors_of bytes.now) fua) result }
        ensures held { self.new ≡ record self.old { disk = self.new.disk; metadata = self.new.metadata; mode = self.new.mode } }
        ensures geometry { M.geometry self.new.metadata ≡ M.geometry self.old.metadata }
        ensures flushes { FlushesSo M.Metadata self.old self.new (Write id sector (sectors_of bytes.now) fua) result }
        ensures in_place { OnOk result (StaysInPlace M.Metadata self.old self.new (Write id sector (sectors_of bytes.now) fua)) }
        // A pool that is read-only or has failed refuses it, and its disk is only read.
        ensures read_only { self.old.mode ≢ mode.Writable → IsOnlyRead self.old self.new result }
    {
        if is_failed(self.mode) {
            return Err(Refusal::Failed);
        }
        let answer = self.try_write(id, sector, bytes, fua);
        self.settle(answer)
    }
}

impl<D: Disk, M: Metadata + Drop> Pool<D, M> {
    /// Keeps all that was done, as `flush` does and with its answers, and hands the disk back with any of them.
    pub fn close(self) -> (Result<(), Refusal>, D)
        ensures closed { MatchResult result.0
            (λ _. PoolClosed M.Metadata self (D.state result.1) Done)
            (λ reason. PoolClosed M.Metadata self (D.state result.1) (Refused reason)) }
        // Nothing was written behind the last flush, so it can be opened at once.
        ensures settled { OnOk result.0 ((s : PlainPool) → shows M.Metadata self s → IsSettled (D.state result.1).cells) }
        ensures failed { self.mode ≡ mode.Failed → (result.0 ≡ Err Refusal.Failed) × (D.state result.1 ≡ self.disk) }
        ensures only { IfErr result.0 (λ reason. (reason ≡ Refusal.Failed) ⊎ (reason ≡ Refusal.Fault)) }
    {
        let mut pool = self;
        let answer = pool.keep_or_fail();
        (answer, pool.disk)
    }
}
