//! Volumes of a pool that fails. A contract knows who holds them and whether it has failed.

ghost use Rattle.std.specs.Prelude.{◌≡◌, ◌+◌, false, if◌then◌else◌, IfOk};
ghost use Rattle.std.specs.FinMap.{empty};
ghost use Rattle.tp_model.specs.Flushing.{IsFlushing, LeavesFewer};
ghost use Rattle.tp_holders.specs.Holders.{holds_of};
ghost use Rattle.tp_msg.specs.declared.message.Message.TheVariants.{ReserveMetadataSnap};
ghost use Rattle.tp_msg.specs.Asked.{IsMessageBegun};

use arrayvec::ArrayVec;
use tp_holders::{Holder, Holders, release};
use tp_model::{
    Cloned, DevId, Flushing, Geometry, Mode, Refusal, SharedReads, SharedVolumes, Slots, Staged,
    Vb, Volumes, Walked,
};
use tp_msg::{LineBuffer, Managed, Message};

/// Volumes of every id, of a pool whose first flush is refused as damaged, by which it fails. Until then they may be held; nothing else of them is done, and
/// status lines are empty.
#[derive(Drop)]
pub struct FailingShelf {
    geometry: Geometry,
    holders: Holders,
    has_failed: bool,
    /// Behind how many parts a flush that is made in parts fails.
    parts: u8,
}

impl FailingShelf {
    ghost use Rattle.std.specs.Prelude.{◌≡◌, if◌then◌else◌};
    ghost use Rattle.tp_model.specs.declared.refusal.Refusal.TheVariants.{Failed};

    /// Why a call is refused, where this is the reason as long as the pool works.
    fn reason(&self, reason: Refusal) -> Refusal
        ensures { result ≡ (if self.now.has_failed then Failed else reason) }
    {
        if self.has_failed {
            Refusal::Failed
        } else {
            reason
        }
    }
}

impl Volumes for FailingShelf {
    ghost use Rattle.tp_shelf.specs.Failing.{fails, nothing_holds};

    ghost view = { fails (λ s. s.geometry) (λ s. s.holders.items) (λ s. s.has_failed) };

    fn geometry(&self) -> Geometry {
        self.geometry
    }

    fn mode(&self) -> Mode {
        if self.has_failed {
            Mode::Failed
        } else {
            Mode::Writable
        }
    }

    fn read(&mut self, _id: DevId, _sector: u64, _out: &mut [u8]) -> Result<(), Refusal> {
        Err(self.reason(Refusal::Damaged))
    }

    fn write(
        &mut self,
        _id: DevId,
        _sector: u64,
        _bytes: &[u8],
        _fua: bool,
    ) -> Result<(), Refusal> {
        Err(self.reason(Refusal::NoDataSpace))
    }

    fn trim(&mut self, _id: DevId, _sector: u64, _count: u64, _fua: bool) -> Result<(), Refusal> {
        Err(self.reason(Refusal::NoSuchDevice))
    }

    fn write_zeroes(
        &mut self,
        _id: DevId,
        _sector: u64,
        _count: u64,
        _no_hole: bool,
        _fua: bool,
    ) -> Result<(), Refusal> {
        Err(self.reason(Refusal::NoDataSpace))
    }

    fn flush(&mut self) -> Result<(), Refusal> {
        let reason = self.reason(Refusal::Damaged);
        self.has_failed = true;
        Err(reason)
    }

    fn next_id(&mut self, from: DevId) -> Result<Option<DevId>, Refusal> {
        if self.has_failed {
            return Err(Refusal::Failed);
        }
        Ok(Some(from))
    }

    fn volume_blocks(&mut self, _id: DevId) -> Result<u32, Refusal> {
        if self.has_failed {
            return Err(Refusal::Failed);
        }
        Ok(self.geometry.virtual_blocks())
    }

    fn hold(&mut self, id: DevId) -> Result<(), Refusal> {
        if self.has_failed {
            return Err(Refusal::Failed);
        }
        self.holders
            .push(Holder::of(id, self.geometry.virtual_blocks()));
        Ok(())
    }

    fn let_go(&mut self, id: DevId) {
        release(&mut self.holders, id);
    }

    ghost laws = { nothing_holds (λ s. s.geometry) (λ s. s.holders.items) (λ s. s.has_failed) };
}

impl SharedVolumes for FailingShelf {
    fn read_shared(&self, _id: DevId, _sector: u64, _out: &mut [u8]) -> bool {
        false
    }

    fn walk_shared(&self, _id: DevId, _from: Vb, _slots: &mut Slots) -> bool {
        false
    }

    fn sync_ahead(&self) {}
}

/// Such volumes in the middle of a flush, which fails behind so many parts more.
#[derive(Drop)]
pub struct MidFailing {
    shelf: FailingShelf,
    left: u8,
}

impl SharedReads<FailingShelf> for MidFailing {
    ghost use Rattle.std.specs.Prelude.{◌+◌};

    ghost of = { λ m. m.shelf };

    ghost left = { λ m. m.left + 1 };

    fn geometry_beside(&self) -> Geometry {
        self.shelf.geometry
    }

    fn read_beside(&self, _id: DevId, _sector: u64, _out: &mut [u8]) -> bool {
        false
    }

    fn walk_beside(&self, _id: DevId, _from: Vb, _slots: &mut Slots) -> bool {
        false
    }

    fn sync_beside(&self) {}
}

/// A flush with so many parts left before its last one.
fn fail_on(shelf: FailingShelf, left: u8) -> Flushing<FailingShelf, MidFailing>
    ensures flushing { IsFlushing ⟦<FailingShelf as Volumes>⟧.view ⟦<MidFailing as SharedReads<FailingShelf>>⟧.of shelf result }
    ensures fewer { LeavesFewer ⟦<MidFailing as SharedReads<FailingShelf>>⟧.left (left + 1) result }
{
    if left > 0 {
        return Flushing::Midway(MidFailing {
            shelf,
            left: left - 1,
        });
    }
    let mut done = shelf;
    let answer = done.flush();
    Flushing::Done(done, answer)
}

impl Staged for FailingShelf {
    type Midway = MidFailing;

    fn begin_flush(self) -> Flushing<FailingShelf, MidFailing> {
        let left = self.parts;
        fail_on(self, left)
    }

    fn go_on(midway: MidFailing) -> Flushing<FailingShelf, MidFailing> {
        let MidFailing { shelf, left } = midway;
        fail_on(shelf, left)
    }

    fn end_flush(midway: MidFailing) -> (FailingShelf, Result<(), Refusal>) {
        let MidFailing { mut shelf, left: _ } = midway;
        let answer = shelf.flush();
        (shelf, answer)
    }
}

impl Walked for FailingShelf {
    fn walk(&mut self, _id: DevId, _from: Vb, _slots: &mut Slots) -> Result<(), Refusal> {
        Err(self.reason(Refusal::Damaged))
    }
}

/// Begins to hold the mapping of such a pool; the flush behind it fails.
fn begin_reserve(shelf: &FailingShelf) -> Option<Result<(), Refusal>>
    ensures { IsMessageBegun ⟦<FailingShelf as Volumes>⟧.view shelf.now shelf.now ReserveMetadataSnap result }
{
    let has_failed = shelf.has_failed;
    if has_failed {
        return Some(Err(Refusal::Failed));
    }
    None
}

impl Cloned for FailingShelf {
    fn create_snap(&mut self, _id: DevId, _origin: DevId) -> Result<(), Refusal> {
        Err(self.reason(Refusal::TooManyDevices))
    }

    fn delete(&mut self, _id: DevId) -> Result<(), Refusal> {
        Err(self.reason(Refusal::NoSuchDevice))
    }
}

impl Managed for FailingShelf {
    fn change(&mut self, message: &Message) -> Option<Result<(), Refusal>> {
        match *message {
            Message::CreateThin { id: _ } => Some(Err(self.reason(Refusal::TooManyDevices))),
            Message::CreateSnap { id, origin } => Some(self.create_snap(id, origin)),
            Message::Delete { id } => Some(self.delete(id)),
            Message::SetTransactionId {
                current: _,
                next: _,
            } => Some(Err(self.reason(Refusal::StaleTransactionId))),
            Message::Grow { id: _, blocks: _ } => Some(Err(self.reason(Refusal::NoSuchDevice))),
            Message::ReserveMetadataSnap => begin_reserve(self),
            Message::ReleaseMetadataSnap => Some(Err(self.reason(Refusal::NoHeldRoot))),
        }
    }

    fn status(&mut self, _out: &mut LineBuffer) -> usize {
        0
    }

    fn thin_status(&mut self, _id: DevId, _out: &mut LineBuffer) -> Result<usize, Refusal> {
        Ok(0)
    }
}

/// A pool that nobody uses yet, whose flush fails behind so many parts where it is made in parts.
pub fn failing_in_part(parts: u8) -> Result<FailingShelf, Refusal>
    ensures holds { IfOk result (λ s. holds_of s.holders.items ≡ empty) }
    ensures works { IfOk result (λ s. s.has_failed ≡ false) }
{
    let mut shelf = failing_shelf()?;
    shelf.parts = parts;
    Ok(shelf)
}

/// A pool that nobody uses yet.
pub fn failing_shelf() -> Result<FailingShelf, Refusal>
    ensures holds { IfOk result (λ s. holds_of s.holders.items ≡ empty) }
    ensures works { IfOk result (λ s. s.has_failed ≡ false) }
{
    let geometry = Geometry::new(128, 16, 2048, 4)?;
    Ok(FailingShelf {
        geometry,
        holders: ArrayVec::new(),
        has_failed: false,
        parts: 0,
    })
}
