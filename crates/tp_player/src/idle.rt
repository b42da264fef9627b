//! A pool of which no volume is open, and its calls. They have few clauses: a caller of the pool's
//! own methods is proved under their whole contracts.

ghost use Rattle.std.specs.Prelude.{◌≡◌};
ghost use Rattle.std.specs.Coded.{Coded-set, coded_ℕ};
ghost use Rattle.std.specs.FinMap.{code, empty};
ghost use Rattle.tp_holders.specs.Holders.{holds_of};

use crate::disk::ScriptDisk;
use tp_cache::ReadCache;
use tp_meta::Meta;
use tp_model::{DevId, Refusal, SharedVolumes, Slots, Vb, Volumes, Walked};
use tp_msg::{Managed, Message};
use tp_script::{Buffer, Operation, Request, SECTOR};
use tp_served::Served;

pub(crate) type MemServed = Served<ReadCache<ScriptDisk>, Meta>;

/// The most sectors of one call.
pub(crate) const MOST_SECTORS: u64 = 2048;

/// Numbers of volumes and of blocks are below this one.
pub(crate) const NUMBERS: u32 = 16_777_216;

/// A pool of which no volume is open.
#[derive(Drop)]
pub(crate) struct IdlePool {
    pub pool: MemServed,
    ghost unheld: { holds_of pool.besides.holders ≡ empty } by { Coded-set (code coded_ℕ coded_ℕ) (holds_of pool.besides.holders) empty },
}

impl IdlePool {
    /// Returns the sectors of a volume of the pool's size.
    pub(crate) fn volume_sectors(&self) -> u64 {
        self.pool.geometry().volume_sectors()
    }

    /// Returns the sectors of a block.
    pub(crate) fn block_sectors(&self) -> u64 {
        self.pool.geometry().block_sectors() as u64
    }

    #[inline(never)]
    pub(crate) fn send(&mut self, message: &Message) -> Result<(), Refusal> {
        match self.pool.order(message) {
            Ok(()) => Ok(()),
            Err(reason) => Err(reason),
        }
    }

    /// Makes the change of a message, which the next commit makes durable.
    #[inline(never)]
    pub(crate) fn change(&mut self, message: &Message) -> Result<(), Refusal> {
        self.pool.change(message).unwrap_or(Ok(()))
    }

    #[inline(never)]
    pub(crate) fn flush(&mut self) -> Result<(), Refusal> {
        match self.pool.flush() {
            Ok(()) => Ok(()),
            Err(reason) => Err(reason),
        }
    }

    /// Adds the pool's status line.
    #[inline(never)]
    pub(crate) fn add_status(&mut self, text: &mut Buffer) {
        let mut line = [0; 192];
        let length = self.pool.status(&mut line);
        text.add(&line[..length]);
    }

    /// Adds the status line of a volume.
    #[inline(never)]
    pub(crate) fn add_thin(&mut self, id: u32, text: &mut Buffer) -> Result<(), Refusal> {
        let mut line = [0; 192];
        match self.pool.thin_status(DevId::new(id % NUMBERS), &mut line) {
            Ok(length) => {
                text.add(&line[..length]);
                Ok(())
            }
            Err(refusal) => Err(refusal),
        }
    }

    #[inline(never)]
    pub(crate) fn volume_blocks(&mut self, id: u32) -> Result<u32, Refusal> {
        self.pool.volume_blocks(DevId::new(id % NUMBERS))
    }

    /// Returns the least number of a volume from this one on.
    #[inline(never)]
    pub(crate) fn next_id(&mut self, from: u32) -> Result<Option<u32>, Refusal> {
        if from >= NUMBERS {
            return Ok(None);
        }
        match self.pool.next_id(DevId::new(from)) {
            Ok(Some(id)) => Ok(Some(id.number())),
            Ok(None) => Ok(None),
            Err(refusal) => Err(refusal),
        }
    }

    /// Reads whole sectors of a volume, up to the size of the pool's own volumes.
    #[inline(never)]
    pub(crate) fn read(&mut self, id: u32, sector: u64, out: &mut [u8]) -> Result<(), Refusal> {
        let count = out.len() as u64 / 512;
        let end = self.pool.geometry().volume_sectors();
        if out.len() % SECTOR != 0 || count > MOST_SECTORS || sector > end || count > end - sector {
            return Err(Refusal::BadGeometry);
        }
        self.pool.read(DevId::new(id % NUMBERS), sector, out)
    }

    /// Reads whole sectors of a volume of the metadata snapshot.
    #[inline(never)]
    pub(crate) fn read_snapshot(
        &mut self,
        id: u32,
        sector: u64,
        out: &mut [u8],
    ) -> Result<(), Refusal> {
        let count = out.len() as u64 / 512;
        let end = self.pool.geometry().volume_sectors();
        if out.len() % SECTOR != 0 || count > MOST_SECTORS || sector > end || count > end - sector {
            return Err(Refusal::BadGeometry);
        }
        self.pool.held_read(DevId::new(id % NUMBERS), sector, out)
    }

    #[inline(never)]
    fn write(&mut self, id: u32, sector: u64, bytes: &[u8], fua: bool) -> Result<(), Refusal> {
        let count = bytes.len() as u64 / 512;
        let end = self.pool.geometry().volume_sectors();
        if bytes.len() % SECTOR != 0
            || count > MOST_SECTORS
            || sector > end
            || count > end - sector
        {
            return Err(Refusal::BadGeometry);
        }
        self.pool
            .write(DevId::new(id % NUMBERS), sector, bytes, fua)
    }

    #[inline(never)]
    fn trim(&mut self, request: &Request, fua: bool) -> Result<(), Refusal> {
        let (id, sector, count) = (request.volume % NUMBERS, request.sector, request.count);
        let end = self.pool.geometry().volume_sectors();
        if count > MOST_SECTORS || sector > end || count > end - sector {
            return Err(Refusal::BadGeometry);
        }
        self.pool.trim(DevId::new(id), sector, count, fua)
    }

    #[inline(never)]
    fn zero(&mut self, request: &Request, no_hole: bool, fua: bool) -> Result<(), Refusal> {
        let (id, sector, count) = (request.volume % NUMBERS, request.sector, request.count);
        let end = self.pool.geometry().volume_sectors();
        if count > MOST_SECTORS || sector > end || count > end - sector {
            return Err(Refusal::BadGeometry);
        }
        self.pool
            .write_zeroes(DevId::new(id), sector, count, no_hole, fua)
    }

    /// Performs a request that returns no bytes. `bytes`: the payload of a write.
    pub(crate) fn perform(&mut self, request: &Request, bytes: &[u8]) -> Result<(), Refusal> {
        match request.operation {
            Operation::Read { .. } | Operation::Status { .. } => Ok(()),
            Operation::Write { fua, .. } => self.write(request.volume, request.sector, bytes, fua),
            Operation::Trim { fua } => self.trim(request, fua),
            Operation::Zero { no_hole, fua } => self.zero(request, no_hole, fua),
        }
    }

    /// Reads from memory, beside other calls. Returns whether the pool had all that it needed
    /// there.
    #[inline(never)]
    pub(crate) fn read_shared(&self, id: u32, sector: u64, out: &mut [u8]) -> bool {
        let count = out.len() as u64 / 512;
        let end = self.pool.geometry().volume_sectors();
        if out.len() % SECTOR != 0 || count > MOST_SECTORS || sector > end || count > end - sector {
            return false;
        }
        self.pool.read_shared(DevId::new(id % NUMBERS), sector, out)
    }

    /// Lists the mapped blocks of a volume from this one on.
    #[inline(never)]
    pub(crate) fn walk(&mut self, id: u32, from: u32, slots: &mut Slots) -> Result<(), Refusal> {
        self.pool
            .walk(DevId::new(id % NUMBERS), Vb::new(from % NUMBERS), slots)
    }

    /// Lists the mapped blocks from memory, beside other calls. Returns whether the pool had all
    /// that it needed there.
    #[inline(never)]
    pub(crate) fn walk_shared(&self, id: u32, from: u32, slots: &mut Slots) -> bool {
        self.pool
            .walk_shared(DevId::new(id % NUMBERS), Vb::new(from % NUMBERS), slots)
    }
}
