//! The volumes, and the pool that they are of. A contract knows who holds them and how often they were flushed, and nothing of what they hold.

ghost use Rattle.std.specs.Prelude.{◌≡◌, ◌+◌, ◌<◌, ◌≤◌, ℕ, IfOk, length};
ghost use Rattle.std.specs.FinMap.{empty};
ghost use Rattle.tp_model.specs.Flushing.{IsFlushing, LeavesFewer};
ghost use Rattle.tp_holders.specs.Holders.{holds_of};
ghost use Rattle.tp_msg.specs.declared.message.Message.TheVariants.{CreateThin, Grow, ReleaseMetadataSnap, ReserveMetadataSnap, SetTransactionId};
ghost use Rattle.tp_msg.specs.Asked.{IsMessageBegun};

use crate::stages::Stages;
use arrayvec::ArrayVec;
use std::alloc::{AllocError, Global};
use std::sync::atomic::{AtomicBool, AtomicU64, Ordering};
use std::thread;
use tp_holders::{Holder, Holders, release};
use tp_hub::{Log, Made};
use tp_model::{
    Cloned, DevId, Flushing, Geometry, Mode, Pb, Refusal, SharedReads, SharedVolumes, Slot, Slots,
    Staged, Vb, Volumes, Walked,
};
use tp_msg::{LineBuffer, Managed, Message, PoolStatus, VolumeStatus, print_status, print_thin};

/// The bytes of a block of 128 sectors.
const BLOCK: usize = 65_536;

/// The blocks of a volume, of one that takes long requests, and of one whose listing has two pages.
const BLOCKS: u32 = 16;

const WIDE_BLOCKS: u32 = 64;

const PAGED_BLOCKS: u32 = 300;

/// How many shared reads, walks and syncs have come, for how many each waits, and whether one waited in vain.
#[derive(Drop)]
struct Company {
    wanted: u64,
    came: AtomicU64,
    in_vain: AtomicBool,
}

impl Company {
    fn of(wanted: u64) -> Company {
        Company {
            wanted,
            came: AtomicU64::new(0),
            in_vain: AtomicBool::new(false),
        }
    }

    /// Looks at most 2^20 times until as many came as are wanted.
    fn wait(&self) -> bool {
        for _ in 0..1u32 << 20 {
            if self.came.load(Ordering::SeqCst) >= self.wanted {
                return true;
            }
            thread::yield_now();
        }
        false
    }

    /// Comes, and stays until as many came as are wanted.
    fn join(&self) {
        self.came.fetch_add(1, Ordering::SeqCst);
        if !self.wait() {
            self.in_vain.store(true, Ordering::SeqCst);
        }
    }
}

/// Two volumes with the ids 0 and 1, which are always there: their bytes, one behind the other, who holds them, the transaction id, and the number of the root
/// that is held (0: none), below which nothing is kept. A write that is done is kept. Each flush is noted as one of a stream.
#[derive(Drop)]
pub struct Shelf {
    company: Company,
    geometry: Geometry,
    flushes: Log,
    transaction_id: u64,
    held_root: u32,
    holders: Holders,
    bytes: Vec<u8>,
    /// How many trims and zeroings were made.
    cleared: u64,
    stages: Stages,
}

/// So many zero bytes.
fn zeroes(alloc: Global, len: usize) -> Result<Vec<u8>, AllocError> {
    vec![in alloc; 0u8; len]
}

impl Shelf {
    ghost use Rattle.std.specs.Prelude.{◌≡◌};
    ghost use Rattle.std.specs.FinMap.{empty};
    ghost use Rattle.tp_holders.specs.Holders.{holds_of};

    /// Volumes that nobody holds.
    fn of(geometry: Geometry, bytes: Vec<u8>, readers: u64) -> Shelf
        ensures { holds_of result.holders.items ≡ empty }
    {
        Shelf {
            company: Company::of(readers),
            geometry,
            flushes: Log::new(),
            transaction_id: 0,
            held_root: 0,
            holders: ArrayVec::new(),
            bytes,
            cleared: 0,
            stages: Stages::of(0, false),
        }
    }

    /// How many sessions hold volumes.
    pub fn held(&self) -> usize {
        self.holders.len()
    }

    /// Whether as many shared reads and walks came as each waits for, and none waited in vain. Those that are not shared do not count.
    pub fn read_together(&self) -> bool {
        let came = self.company.came.load(Ordering::SeqCst);
        came >= self.company.wanted && !self.company.in_vain.load(Ordering::SeqCst)
    }

    /// The first byte of each volume.
    pub fn first_bytes(&self) -> (Option<u8>, Option<u8>) {
        let second = self.place(DevId::new(1), 0);
        (self.bytes.first().copied(), self.bytes.get(second).copied())
    }

    /// How many trims and zeroings were made.
    pub fn cleared(&self) -> u64 {
        self.cleared
    }

    /// How many syncs there were between parts of flushes, how many shared reads and walks came to one, and whether one waited in vain.
    pub fn synced(&self) -> (u64, u64, bool) {
        self.stages.told()
    }

    /// Where a sector of a volume stands.
    fn place(&self, id: DevId, sector: u64) -> usize {
        let from = usize::try_from(id.number())
            .unwrap_or(usize::MAX)
            .saturating_mul(volume_bytes(self.geometry.virtual_blocks()));
        from.saturating_add(size(sector))
    }

    /// Whether there is such a volume.
    fn has(&self, id: DevId) -> bool {
        id.number() < 2
    }

    /// Whether the mapping is held.
    fn holds_root(&self) -> bool {
        self.held_root != 0
    }

    /// Lists the blocks of a volume from one on, where it is there.
    fn list(&self, id: DevId, from: Vb, slots: &mut Slots) -> bool {
        if id.number() >= 2 {
            return false;
        }
        list_blocks(slots, id, from, self.geometry.virtual_blocks());
        true
    }
}

/// The bytes of a volume of so many blocks.
fn volume_bytes(blocks: u32) -> usize {
    usize::try_from(blocks)
        .unwrap_or(usize::MAX)
        .saturating_mul(BLOCK)
}

/// The bytes of so many sectors.
fn size(count: u64) -> usize {
    usize::try_from(count)
        .unwrap_or(usize::MAX)
        .saturating_mul(512)
}

/// Reads from a place on, as far as something stands there.
fn copy_out(bytes: &[u8], at: usize, out: &mut [u8])
    ensures { length out.new ≡ length out.old }
{
    let from = bytes.get(at..).unwrap_or(&[]);
    let count = from.len().min(out.len());
    out[..count].copy_from_slice(&from[..count]);
}

/// Writes from a place on, as far as there is one.
fn copy_in(bytes: &mut [u8], at: usize, from: &[u8]) {
    if let Some(to) = bytes.get_mut(at..) {
        let count = to.len().min(from.len());
        to[..count].copy_from_slice(&from[..count]);
    }
}

/// Makes so many bytes zero from a place on, as far as there is one.
fn blank(bytes: &mut [u8], at: usize, count: usize) {
    if let Some(to) = bytes.get_mut(at..) {
        let count = to.len().min(count);
        to[..count].fill(0);
    }
}

impl Volumes for Shelf {
    ghost use Rattle.std.specs.Prelude.{length};
    ghost use Rattle.tp_shelf.specs.Shelves.{nothing_holds, shelved};

    ghost view = { shelved (λ s. s.geometry) (λ s. s.holders.items) (λ s. length s.flushes.calls) };

    fn geometry(&self) -> Geometry {
        self.geometry
    }

    fn mode(&self) -> Mode {
        Mode::Writable
    }

    fn read(&mut self, id: DevId, sector: u64, out: &mut [u8]) -> Result<(), Refusal> {
        copy_out(&self.bytes, self.place(id, sector), out);
        Ok(())
    }

    fn write(&mut self, id: DevId, sector: u64, bytes: &[u8], _fua: bool) -> Result<(), Refusal> {
        let at = self.place(id, sector);
        copy_in(&mut self.bytes, at, bytes);
        Ok(())
    }

    fn trim(&mut self, _id: DevId, _sector: u64, _count: u64, _fua: bool) -> Result<(), Refusal> {
        self.cleared = self.cleared.saturating_add(1);
        Ok(())
    }

    fn write_zeroes(
        &mut self,
        id: DevId,
        sector: u64,
        count: u64,
        _no_hole: bool,
        _fua: bool,
    ) -> Result<(), Refusal> {
        let at = self.place(id, sector);
        blank(&mut self.bytes, at, size(count));
        self.cleared = self.cleared.saturating_add(1);
        Ok(())
    }

    fn flush(&mut self) -> Result<(), Refusal> {
        self.flushes.note(&Made::Flushed(true), &[]);
        Ok(())
    }

    fn next_id(&mut self, from: DevId) -> Result<Option<DevId>, Refusal> {
        if from.number() < 2 {
            Ok(Some(from))
        } else {
            Ok(None)
        }
    }

    fn volume_blocks(&mut self, id: DevId) -> Result<u32, Refusal> {
        if id.number() >= 2 {
            return Err(Refusal::NoSuchDevice);
        }
        Ok(self.geometry.virtual_blocks())
    }

    fn hold(&mut self, id: DevId) -> Result<(), Refusal> {
        if id.number() >= 2 {
            return Err(Refusal::NoSuchDevice);
        }
        self.holders
            .push(Holder::of(id, self.geometry.virtual_blocks()));
        Ok(())
    }

    fn let_go(&mut self, id: DevId) {
        release(&mut self.holders, id);
    }

    ghost laws = { nothing_holds (λ s. s.geometry) (λ s. s.holders.items) (λ s. length s.flushes.calls) };
}

impl SharedVolumes for Shelf {
    fn read_shared(&self, id: DevId, sector: u64, out: &mut [u8]) -> bool {
        self.company.join();
        copy_out(&self.bytes, self.place(id, sector), out);
        true
    }

    /// It comes and stays as a shared read does.
    fn walk_shared(&self, id: DevId, from: Vb, slots: &mut Slots) -> bool {
        self.company.join();
        self.list(id, from, slots)
    }

    /// It comes and stays as a shared read does.
    fn sync_ahead(&self) {
        self.company.join();
    }
}

/// A shelf in the middle of a flush, of which so many parts are left before the last one.
#[derive(Drop)]
pub struct MidShelf {
    shelf: Shelf,
    left: u8,
}

impl SharedReads<Shelf> for MidShelf {
    ghost use Rattle.std.specs.Prelude.{◌+◌};

    ghost of = { λ m. m.shelf };

    ghost left = { λ m. m.left + 1 };

    fn geometry_beside(&self) -> Geometry {
        self.shelf.geometry
    }

    fn read_beside(&self, id: DevId, sector: u64, out: &mut [u8]) -> bool {
        self.shelf.stages.read();
        copy_out(&self.shelf.bytes, self.shelf.place(id, sector), out);
        true
    }

    fn walk_beside(&self, id: DevId, from: Vb, slots: &mut Slots) -> bool {
        self.shelf.stages.read();
        self.shelf.list(id, from, slots)
    }

    fn sync_beside(&self) {
        self.shelf.stages.sync();
    }
}

/// A flush with so many parts left before its last one.
fn flush_on(shelf: Shelf, left: u8) -> Flushing<Shelf, MidShelf>
    ensures flushing { IsFlushing ⟦<Shelf as Volumes>⟧.view ⟦<MidShelf as SharedReads<Shelf>>⟧.of shelf result }
    ensures fewer { LeavesFewer ⟦<MidShelf as SharedReads<Shelf>>⟧.left (left + 1) result }
{
    if left > 0 {
        return Flushing::Midway(MidShelf {
            shelf,
            left: left - 1,
        });
    }
    let mut done = shelf;
    let answer = done.flush();
    Flushing::Done(done, answer)
}

impl Staged for Shelf {
    type Midway = MidShelf;

    fn begin_flush(self) -> Flushing<Shelf, MidShelf> {
        let left = self.stages.parts;
        flush_on(self, left)
    }

    fn go_on(midway: MidShelf) -> Flushing<Shelf, MidShelf> {
        let MidShelf { shelf, left } = midway;
        flush_on(shelf, left)
    }

    fn end_flush(midway: MidShelf) -> (Shelf, Result<(), Refusal>) {
        let MidShelf { mut shelf, left: _ } = midway;
        let answer = shelf.flush();
        (shelf, answer)
    }
}

/// The number that a walk tells for a block: its own, and for the last half of the second volume one of those behind.
fn place_of(id: DevId, block: u32, blocks: u32) -> Pb
    requires block { block < 16777216 }
    requires blocks { blocks ≤ 16777216 }
{
    let is_apart = id.number() == 1 && block >= blocks / 2;
    let shift = if is_apart { blocks } else { 0 };
    Pb::new((block + shift) % 1_048_576)
}

/// Lists the blocks of a volume from one on, as many as there is room for.
fn list_blocks(slots: &mut Slots, id: DevId, from: Vb, blocks: u32)
    requires { blocks ≤ 16777216 }
{
    slots.clear();
    for block in from.number()..blocks {
        if slots.is_full() {
            return;
        }
        slots.push(Slot::new(Vb::new(block), place_of(id, block, blocks)));
    }
}

impl Walked for Shelf {
    /// Each block of both volumes is listed.
    fn walk(&mut self, id: DevId, from: Vb, slots: &mut Slots) -> Result<(), Refusal> {
        if !self.list(id, from, slots) {
            return Err(Refusal::NoSuchDevice);
        }
        Ok(())
    }
}

/// Sets the transaction id, where it is the current one; that is kept by the flush behind it.
fn begin_exchange(shelf: &mut Shelf, current: u64, next: u64) -> Option<Result<(), Refusal>>
    ensures { IsMessageBegun ⟦<Shelf as Volumes>⟧.view shelf.old shelf.new (SetTransactionId current next) result }
{
    let id = shelf.transaction_id;
    if id != current {
        return Some(Err(Refusal::StaleTransactionId));
    }
    shelf.transaction_id = next;
    None
}

/// Creates a volume, for which there is no room.
fn begin_create(shelf: &Shelf, id: DevId) -> Option<Result<(), Refusal>>
    ensures { IsMessageBegun ⟦<Shelf as Volumes>⟧.view shelf.now shelf.now (CreateThin id) result }
{
    if shelf.has(id) {
        return Some(Err(Refusal::Exists));
    }
    Some(Err(Refusal::TooManyDevices))
}

/// Gives a volume some number of blocks, for which there is no room either.
fn begin_grow(shelf: &Shelf, id: DevId) -> Option<Result<(), Refusal>>
    ensures { (blocks : ℕ) → IsMessageBegun ⟦<Shelf as Volumes>⟧.view shelf.now shelf.now (Grow id blocks) result }
{
    if shelf.has(id) {
        return Some(Err(Refusal::Busy));
    }
    Some(Err(Refusal::NoSuchDevice))
}

/// Holds the mapping, and keeps that at once.
fn begin_hold(shelf: &mut Shelf) -> Option<Result<(), Refusal>>
    ensures { IsMessageBegun ⟦<Shelf as Volumes>⟧.view shelf.old shelf.new ReserveMetadataSnap result }
{
    if shelf.holds_root() {
        return Some(Err(Refusal::HeldRootExists));
    }
    shelf.held_root = 9;
    Some(Ok(()))
}

/// Gives up the mapping that is held, and keeps that at once.
fn begin_release(shelf: &mut Shelf) -> Option<Result<(), Refusal>>
    ensures { IsMessageBegun ⟦<Shelf as Volumes>⟧.view shelf.old shelf.new ReleaseMetadataSnap result }
{
    if !shelf.holds_root() {
        return Some(Err(Refusal::NoHeldRoot));
    }
    shelf.held_root = 0;
    Some(Ok(()))
}

impl Cloned for Shelf {
    fn create_snap(&mut self, id: DevId, origin: DevId) -> Result<(), Refusal> {
        if origin.number() >= 2 {
            Err(Refusal::NoSuchDevice)
        } else if id.number() < 2 {
            Err(Refusal::Exists)
        } else {
            Err(Refusal::TooManyDevices)
        }
    }

    fn delete(&mut self, id: DevId) -> Result<(), Refusal> {
        if id.number() < 2 {
            Err(Refusal::Busy)
        } else {
            Err(Refusal::NoSuchDevice)
        }
    }
}

impl Managed for Shelf {
    fn change(&mut self, message: &Message) -> Option<Result<(), Refusal>> {
        match *message {
            Message::CreateThin { id } => begin_create(self, id),
            Message::CreateSnap { id, origin } => Some(self.create_snap(id, origin)),
            Message::Delete { id } => Some(self.delete(id)),
            Message::SetTransactionId { current, next } => begin_exchange(self, current, next),
            Message::Grow { id, blocks: _ } => begin_grow(self, id),
            Message::ReserveMetadataSnap => begin_hold(self),
            Message::ReleaseMetadataSnap => begin_release(self),
        }
    }

    fn status(&mut self, out: &mut LineBuffer) -> usize {
        let status = PoolStatus {
            transaction_id: self.transaction_id,
            used_metadata: 10,
            metadata_blocks: 2048,
            used_data: 4,
            data_blocks: 4,
            mode: Mode::Writable,
            needs_check: false,
            held_root: self.held_root,
        };
        print_status(&status, out)
    }

    fn thin_status(&mut self, id: DevId, out: &mut LineBuffer) -> Result<usize, Refusal> {
        if id.number() >= 2 {
            return Err(Refusal::NoSuchDevice);
        }
        let status = VolumeStatus {
            mode: Mode::Writable,
            block_sectors: 128,
            mapped_blocks: 16,
            highest_block: Some(15),
        };
        Ok(print_thin(&status, out))
    }
}

/// Two volumes of zeros, of 1 MiB each.
pub fn blank_shelf(alloc: Global) -> Result<Shelf, Refusal>
    ensures { IfOk result (λ s. holds_of s.holders.items ≡ empty) }
{
    shelf_of_readers(alloc, 0)
}

/// The same, of 4 MiB each.
pub fn wide_shelf(alloc: Global) -> Result<Shelf, Refusal>
    ensures { IfOk result (λ s. holds_of s.holders.items ≡ empty) }
{
    shelf_of(alloc, WIDE_BLOCKS, 0)
}

/// The same, of more blocks than one walk lists: a listing of a volume has two pages.
pub fn paged_shelf(alloc: Global) -> Result<Shelf, Refusal>
    ensures { IfOk result (λ s. holds_of s.holders.items ≡ empty) }
{
    shelf_of(alloc, PAGED_BLOCKS, 0)
}

/// The same, whose shared reads and walks each wait until so many have come.
pub fn shelf_of_readers(alloc: Global, readers: u64) -> Result<Shelf, Refusal>
    ensures { IfOk result (λ s. holds_of s.holders.items ≡ empty) }
{
    shelf_of(alloc, BLOCKS, readers)
}

/// Two volumes of zeros, of 1 MiB each, whose flushes have so many parts before the last one. With `waits` each sync between two stays until a shared read has come
/// to it.
pub fn staged_shelf(alloc: Global, parts: u8, waits: bool) -> Result<Shelf, Refusal>
    ensures { IfOk result (λ s. holds_of s.holders.items ≡ empty) }
{
    let mut shelf = shelf_of(alloc, BLOCKS, 0)?;
    shelf.stages = Stages::of(parts, waits);
    Ok(shelf)
}

/// Two volumes of so many blocks, whose shared reads and walks each wait until so many have come.
fn shelf_of(alloc: Global, blocks: u32, readers: u64) -> Result<Shelf, Refusal>
    ensures { IfOk result (λ s. holds_of s.holders.items ≡ empty) }
{
    let geometry = Geometry::new(128, u64::from(blocks), 2048, 4)?;
    match zeroes(alloc, volume_bytes(blocks).saturating_mul(2)) {
        Ok(bytes) => Ok(Shelf::of(geometry, bytes, readers)),
        Err(_) => Err(Refusal::Memory),
    }
}
