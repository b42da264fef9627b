//! The cache itself: a table of dirty blocks over a disk.
ghost use Rattle.std.specs.Prelude.{◌≡◌, ◌↔◌, ℕ, ◌+◌, ◌*◌, ◌/◌, ◌%◌, ◌<◌, ◌≤◌, ◌^◌, length, replicate, is_ok, IsTrue, MatchResult, OnOk, OnErr, IfNone, IfSome, [], if◌then◌else◌, false};
ghost use Rattle.std.specs.Bool.{OnTrue};
ghost use Rattle.tp_model.specs.Sectors.{sectors_of, bytes_at};
ghost use Rattle.tp_model.specs.Disk.{IsWellFormed, cell_at, Writes, after_flush, after_read, after_write, seen};
ghost use Rattle.tp_model.specs.DiskStops.{moment};
ghost use Rattle.tp_cache.specs.Line.{FlushedAlike, IsLine, WentOn, after_unwritten, begun};
ghost use Rattle.tp_cache.specs.Table.{IsClean, IsSameTable, MayKeep, slot_of};

use crate::noting::{began, noted};
use crate::overlay::lay_over;
use crate::places::Places;
use crate::step::Step;
use crate::table::{after, empty, forget_blocks, put, take_slot};
use crate::through::{flush_through, read_through, write_through};
use crate::trace::Trace;
use crate::writing_out::write_all;
use crate::{BLOCK, SECTOR};
use std::marker::Model;
use tp_disk::{Disk, Fault, SharedDisk};

/// A disk, and a table of dirty blocks.
#[derive(Drop)]
pub struct Core<D: Disk> {
    disk: D,
    /// For each metadata block the number of its slot, counted from 1, where it is dirty; else 0.
    index: Vec<u16>,
    /// For each metadata block the number of its slot, counted from 1, where it has one, dirty or clean; else 0.
    held: Vec<u16>,
    /// The block that each slot was taken for last.
    owners: Vec<usize>,
    slots: Vec<[u8; BLOCK]>,
    /// Memory for dirty blocks that are written in one call.
    run: Vec<u8>,
    /// The slot that the next new block gets; behind the last slot it is the first one again.
    next: usize,
    /// How many slots hold dirty blocks: the last so many before `next`, in the round.
    used: usize,
    trace: Trace,
}

impl<D: Disk> Model for Core<D> {
    ghost use Rattle.std.specs.Prelude.{◌≡◌, length};
    ghost use Rattle.tp_cache.specs.Table.{Held, IsCache, IsKept};

    ghost Value = { Held };

    ghost view = { λ c. record { line = c.trace.line; index = c.index.items; held = c.held.items; used = c.used; room = length c.slots.items } };

    ghost invariant = { λ c. (D.state c.disk ≡ c.trace.line.inner) × IsCache c.index.items c.slots.items c.next c.used c.trace.line
        × IsKept c.index.items c.held.items c.owners.items c.slots.items c.trace.line.outer.cells };
}

impl<D: Disk> Core<D> {
    /// A table that holds nothing, for the first blocks of the disk.
    pub(crate) fn over(disk: D, places: Places) -> Core<D>
        requires { 8 * places.blocks ≤ (D.state disk).size }
        ensures { result ≡ record { line = begun (D.state disk); index = replicate places.blocks 0; held = replicate places.blocks 0; used = 0; room = length places.slots.items } }
    {
        let Places {
            blocks: _,
            index,
            held,
            owners,
            slots,
            run,
        } = places;
        let trace = began(&disk);
        Core {
            disk,
            index,
            held,
            owners,
            slots,
            run,
            next: 0,
            used: 0,
            trace,
        }
    }

    pub(crate) fn into_inner(self) -> D
        ensures { D.state result ≡ self.line.inner }
    {
        let Core {
            disk,
            index: _,
            held: _,
            owners: _,
            slots: _,
            run: _,
            next: _,
            used: _,
            trace: _,
        } = self;
        disk
    }

    pub(crate) fn inner(&self) -> &D
        ensures { D.state result.now ≡ self.now.line.inner }
    {
        &self.disk
    }

    /// Whether a block is dirty.
    pub(crate) fn has_changed(&self) -> bool
        ensures { IsTrue result ↔ 0 < self.now.used }
    {
        self.used > 0
    }

    pub(crate) fn sectors(&self) -> u64
        ensures { result ≡ self.now.line.outer.size }
    {
        self.disk.sectors()
    }

    // Writes all dirty blocks to the inner disk, to make room for a write. After an `Ok` none is dirty; after an `Err` that write has failed.
    fn write_out(&mut self) -> Result<(), Fault>
        ensures outer { self.new.line.outer ≡ (if is_ok result then self.old.line.outer else after_unwritten self.old.line.outer) }
        ensures clean { OnOk result ((block : ℕ) → slot_of self.new.index block ≡ 0) }
        ensures emptied { OnOk result (self.new.used < self.new.room) }
        ensures long { length self.new.index ≡ length self.old.index }
        ensures time { WentOn self.old.line.under self.new.line.under }
        ensures table { IsSameTable 0 self.old self.new }
        ensures none { OnOk result (self.new.used ≡ 0) }
        ensures flushes { self.new.line.inner.flushes ≡ self.old.line.inner.flushes }
    {
        match write_all(&mut self.disk, &self.index, &self.slots, &mut self.run) {
            Ok(()) => {
                self.trace = noted(&self.trace, &self.disk, Step::NoChange { ok: true }, &[]);
                empty(&mut self.index);
                self.used = 0;
                Ok(())
            }
            Err(Fault) => {
                self.trace = noted(&self.trace, &self.disk, Step::Unwritten, &[]);
                Err(Fault)
            }
        }
    }

    // Reads sectors of which some may be in the table.
    fn read_sectors(&mut self, at: u64, out: &mut [u8]) -> Result<(), Fault>
        requires whole { length out.old % 512 ≡ 0 }
        requires within { at + length out.old / 512 ≤ self.old.line.outer.size }
        ensures outer { self.new.line.outer ≡ after_read (is_ok result) self.old.line.outer }
        ensures inner { self.new.line.inner ≡ after_read (is_ok result) self.old.line.inner }
        ensures bytes { OnOk result (IsTrue self.old.line.outer.is_honest → out.new ≡ bytes_at (seen self.old.line.outer.cells) at (length out.old / 512)) }
        ensures time { WentOn self.old.line.under self.new.line.under }
        ensures table { IsSameTable 0 self.old self.new }
    {
        match read_through(&mut self.disk, &mut self.trace, at, out) {
            Ok(()) => {}
            Err(Fault) => return Err(Fault),
        }
        lay_over(&self.held, &self.slots, at, out);
        Ok(())
    }

    // Writes sectors of which none is dirty; clean blocks that have some of them are forgotten.
    fn pass_write(&mut self, at: u64, bytes: &[u8]) -> Result<(), Fault>
        requires whole { length bytes.now % 512 ≡ 0 }
        requires within { at + length bytes.now / 512 ≤ self.old.line.outer.size }
        requires clean { IsClean self.old.index at (length bytes.now / 512) }
        ensures any { Writes at (sectors_of bytes.now) self.old.line.outer self.new.line.outer }
        ensures ok { OnOk result (self.new.line.outer ≡ after_write at (sectors_of bytes.now) self.old.line.outer) }
        ensures err { OnErr result (self.new.line.outer.failures ≡ self.old.line.outer.failures + 1) }
        ensures moved { moment self.new.line.outer ≡ moment self.old.line.outer + 1 }
        ensures time { WentOn self.old.line.under self.new.line.under }
        ensures table { IsSameTable 0 self.old self.new }
        ensures flushes { self.new.line.inner.flushes ≡ self.old.line.inner.flushes }
    {
        forget_blocks(&mut self.held, at, (bytes.len() / SECTOR) as u64);
        write_through(&mut self.disk, &mut self.trace, at, bytes)
    }

    // Writes the dirty blocks out where sectors from here on may be among them.
    fn make_way(&mut self, at: u64) -> Result<(), Fault>
        ensures outer { self.new.line.outer ≡ (if is_ok result then self.old.line.outer else after_unwritten self.old.line.outer) }
        ensures clean { OnOk result ((n : ℕ) → IsClean self.new.index at n) }
        ensures time { WentOn self.old.line.under self.new.line.under }
        ensures table { IsSameTable 0 self.old self.new }
        ensures flushes { self.new.line.inner.flushes ≡ self.old.line.inner.flushes }
    {
        if self.used == 0 {
            return Ok(());
        }
        if at >= 8 * self.index.len() as u64 {
            return Ok(());
        }
        self.write_out()
    }

    // The metadata block that begins at this sector, where the bytes are as many as a block has.
    fn block_of(&self, at: u64, len: usize) -> Option<usize>
        ensures some { IfSome result (λ block. (at ≡ 8 * block) × (len ≡ 4096) × (block < length self.now.index)) }
        ensures none { IfNone result (MayKeep at len self.now → ⊥) }
    {
        if len != BLOCK || at % 8 != 0 {
            return None;
        }
        if at / 8 >= self.index.len() as u64 {
            return None;
        }
        Some((at / 8) as usize)
    }

    // Keeps a block in the table, where it has a slot already.
    fn keep_again(&mut self, block: usize, at: u64, bytes: &[u8])
        requires at { at ≡ 8 * block }
        requires long { length bytes.now ≡ 4096 }
        requires inside { block < length self.old.index }
        requires again { 0 < slot_of self.old.index block }
        ensures outer { self.new.line.outer ≡ after_write at (sectors_of bytes.now) self.old.line.outer }
        ensures time { WentOn self.old.line.under self.new.line.under }
        ensures table { IsSameTable 0 self.old self.new }
        ensures kept { self.new.line.inner ≡ self.old.line.inner }
        ensures flushes { self.new.line.inner.flushes ≡ self.old.line.inner.flushes }
    {
        let slot = self.index[block];
        self.index[block] = slot;
        put(&mut self.slots, slot as usize - 1, bytes);
        self.trace = noted(&self.trace, &self.disk, Step::Keep { at }, bytes);
    }

    // Keeps a block in the table, in a new slot.
    fn keep_new(&mut self, block: usize, at: u64, bytes: &[u8])
        requires at { at ≡ 8 * block }
        requires long { length bytes.now ≡ 4096 }
        requires inside { block < length self.old.index }
        requires room { self.old.used < self.old.room }
        requires fresh { slot_of self.old.index block ≡ 0 }
        ensures outer { self.new.line.outer ≡ after_write at (sectors_of bytes.now) self.old.line.outer }
        ensures time { WentOn self.old.line.under self.new.line.under }
        ensures table { IsSameTable 1 self.old self.new }
        ensures kept { self.new.line.inner ≡ self.old.line.inner }
        ensures flushes { self.new.line.inner.flushes ≡ self.old.line.inner.flushes }
    {
        let slot = self.next;
        take_slot(&mut self.held, &mut self.owners, slot, block);
        self.index[block] = slot as u16 + 1;
        self.next = after(slot, self.slots.len());
        self.used += 1;
        put(&mut self.slots, slot, bytes);
        self.trace = noted(&self.trace, &self.disk, Step::Keep { at }, bytes);
    }

    // Writes a block to the table, which is written out first where it is full.
    fn write_block(&mut self, block: usize, at: u64, bytes: &[u8]) -> Result<(), Fault>
        requires at { at ≡ 8 * block }
        requires long { length bytes.now ≡ 4096 }
        requires inside { block < length self.old.index }
        ensures outer { self.new.line.outer ≡ (if is_ok result then after_write at (sectors_of bytes.now) self.old.line.outer else after_unwritten self.old.line.outer) }
        ensures time { WentOn self.old.line.under self.new.line.under }
        ensures table { IsSameTable 1 self.old self.new }
        ensures kept { self.old.used < self.old.room → self.new.line.inner ≡ self.old.line.inner }
        ensures flushes { self.new.line.inner.flushes ≡ self.old.line.inner.flushes }
    {
        if self.index[block] > 0 {
            self.keep_again(block, at, bytes);
            return Ok(());
        }
        if self.used == self.slots.len() {
            self.write_out()?;
            self.keep_new(block, at, bytes);
            return Ok(());
        }
        self.keep_new(block, at, bytes);
        Ok(())
    }

    // The bytes of the block, where it has a slot.
    fn copy_held(&self, block: usize, out: &mut [u8]) -> bool
        requires long { length out.old ≡ 4096 }
        requires inside { block < length self.now.index }
        ensures { OnTrue result (out.new ≡ bytes_at (seen self.now.line.outer.cells) (8 * block) 8) }
    {
        let slot = self.held[block] as usize;
        if slot == 0 {
            return false;
        }
        out.copy_from_slice(&self.slots[slot - 1]);
        true
    }

    // Reads a block.
    fn read_block(&mut self, block: usize, at: u64, out: &mut [u8]) -> Result<(), Fault>
        requires at { at ≡ 8 * block }
        requires long { length out.old ≡ 4096 }
        requires inside { block < length self.old.index }
        ensures outer { self.new.line.outer ≡ after_read (is_ok result) self.old.line.outer }
        ensures inner { self.new.line.inner ≡ after_read (is_ok result) self.old.line.inner }
        ensures bytes { OnOk result (IsTrue self.old.line.outer.is_honest → out.new ≡ bytes_at (seen self.old.line.outer.cells) at 8) }
        ensures time { WentOn self.old.line.under self.new.line.under }
        ensures table { IsSameTable 0 self.old self.new }
    {
        let _ = &self.used;
        if self.copy_held(block, out) {
            return Ok(());
        }
        self.read_sectors(at, out)
    }

    pub(crate) fn read(&mut self, at: u64, out: &mut [u8]) -> Result<(), Fault>
        requires whole { length out.old % 512 ≡ 0 }
        requires within { at + length out.old / 512 ≤ self.old.line.outer.size }
        ensures outer { self.new.line.outer ≡ after_read (is_ok result) self.old.line.outer }
        ensures inner { self.new.line.inner ≡ after_read (is_ok result) self.old.line.inner }
        ensures bytes { OnOk result (IsTrue self.old.line.outer.is_honest → out.new ≡ bytes_at (seen self.old.line.outer.cells) at (length out.old / 512)) }
        ensures time { WentOn self.old.line.under self.new.line.under }
        ensures table { IsSameTable 0 self.old self.new }
    {
        match self.block_of(at, out.len()) {
            Some(block) => self.read_block(block, at, out),
            None => self.read_sectors(at, out),
        }
    }

    pub(crate) fn write(&mut self, at: u64, bytes: &[u8]) -> Result<(), Fault>
        requires whole { length bytes.now % 512 ≡ 0 }
        requires within { at + length bytes.now / 512 ≤ self.old.line.outer.size }
        ensures any { Writes at (sectors_of bytes.now) self.old.line.outer self.new.line.outer }
        ensures ok { OnOk result (self.new.line.outer ≡ after_write at (sectors_of bytes.now) self.old.line.outer) }
        ensures err { OnErr result (self.new.line.outer.failures ≡ self.old.line.outer.failures + 1) }
        ensures moved { moment self.new.line.outer ≡ moment self.old.line.outer + 1 }
        ensures time { WentOn self.old.line.under self.new.line.under }
        ensures table { IsSameTable 1 self.old self.new }
        ensures kept { MayKeep at (length bytes.now) self.old → self.new.line.inner ≡ self.old.line.inner }
        ensures flushes { self.new.line.inner.flushes ≡ self.old.line.inner.flushes }
        ensures well_formed { IsWellFormed self.new.line.outer.size self.new.line.outer.cells }
    {
        let result = self.write_sectors(at, bytes);
        self.facts();
        result
    }

    fn write_sectors(&mut self, at: u64, bytes: &[u8]) -> Result<(), Fault>
        requires whole { length bytes.now % 512 ≡ 0 }
        requires within { at + length bytes.now / 512 ≤ self.old.line.outer.size }
        ensures any { Writes at (sectors_of bytes.now) self.old.line.outer self.new.line.outer }
        ensures ok { OnOk result (self.new.line.outer ≡ after_write at (sectors_of bytes.now) self.old.line.outer) }
        ensures err { OnErr result (self.new.line.outer.failures ≡ self.old.line.outer.failures + 1) }
        ensures moved { moment self.new.line.outer ≡ moment self.old.line.outer + 1 }
        ensures time { WentOn self.old.line.under self.new.line.under }
        ensures table { IsSameTable 1 self.old self.new }
        ensures kept { MayKeep at (length bytes.now) self.old → self.new.line.inner ≡ self.old.line.inner }
        ensures flushes { self.new.line.inner.flushes ≡ self.old.line.inner.flushes }
    {
        let _ = &self.used;
        match self.block_of(at, bytes.len()) {
            Some(block) => self.write_block(block, at, bytes),
            None => match self.make_way(at) {
                Ok(()) => self.pass_write(at, bytes),
                Err(Fault) => Err(Fault),
            },
        }
    }

    /// Writes the dirty blocks and flushes the inner disk. The table is emptied only where both succeed.
    pub(crate) fn flush(&mut self) -> Result<(), Fault>
        ensures outer { self.new.line.outer ≡ after_flush (is_ok result) self.old.line.outer }
        ensures time { WentOn self.old.line.under self.new.line.under }
        ensures table { IsSameTable 0 self.old self.new }
        ensures none { OnOk result (self.new.used ≡ 0) }
        ensures flushed { OnOk result (self.new.line.inner.flushes ≡ self.old.line.inner.flushes + 1) }
        ensures alike { FlushedAlike self.old.line self.new.line }
        ensures well_formed { IsWellFormed self.new.line.outer.size self.new.line.outer.cells }
    {
        let result = self.flush_all();
        self.facts();
        result
    }

    fn flush_all(&mut self) -> Result<(), Fault>
        ensures outer { self.new.line.outer ≡ after_flush (is_ok result) self.old.line.outer }
        ensures time { WentOn self.old.line.under self.new.line.under }
        ensures table { IsSameTable 0 self.old self.new }
        ensures none { OnOk result (self.new.used ≡ 0) }
        ensures flushed { OnOk result (self.new.line.inner.flushes ≡ self.old.line.inner.flushes + 1) }
        ensures alike { FlushedAlike self.old.line self.new.line }
    {
        match write_all(&mut self.disk, &self.index, &self.slots, &mut self.run) {
            Ok(()) => self.trace = noted(&self.trace, &self.disk, Step::NoChange { ok: true }, &[]),
            Err(Fault) => {
                self.trace = noted(&self.trace, &self.disk, Step::Flush { ok: false }, &[]);
                return Err(Fault);
            }
        }
        match flush_through(&mut self.disk, &mut self.trace) {
            Ok(()) => {
                empty(&mut self.index);
                self.used = 0;
                Ok(())
            }
            Err(Fault) => Err(Fault),
        }
    }

    /// What is known of every cache.
    pub(crate) fn facts(&self)
        ensures line { IsLine self.now.line }
        ensures data { (i : ℕ) → 8 * length self.now.index ≤ i → cell_at self.now.line.inner.cells i ≡ cell_at self.now.line.outer.cells i }
    {
        let _ = &self.used;
    }
}

impl<D: SharedDisk> Core<D> {
    // A shared read of sectors of which some may be in the table.
    fn read_sectors_shared(&self, at: u64, out: &mut [u8]) -> bool
        requires whole { length out.old % 512 ≡ 0 }
        requires within { at + length out.old / 512 ≤ self.now.line.outer.size }
        ensures { OnTrue result (IsTrue self.now.line.outer.is_honest → out.new ≡ bytes_at (seen self.now.line.outer.cells) at (length out.old / 512)) }
    {
        if !self.disk.read_shared(at, out) {
            return false;
        }
        lay_over(&self.held, &self.slots, at, out);
        true
    }

    /// What `read` would give, or false.
    pub(crate) fn read_shared(&self, at: u64, out: &mut [u8]) -> bool
        requires whole { length out.old % 512 ≡ 0 }
        requires within { at + length out.old / 512 ≤ self.now.line.outer.size }
        ensures { IsTrue result → IsTrue self.now.line.outer.is_honest → out.new ≡ bytes_at (seen self.now.line.outer.cells) at (length out.old / 512) }
    {
        match self.block_of(at, out.len()) {
            Some(block) => {
                if self.copy_held(block, out) {
                    return true;
                }
                self.read_sectors_shared(at, out)
            }
            None => self.read_sectors_shared(at, out),
        }
    }
}
