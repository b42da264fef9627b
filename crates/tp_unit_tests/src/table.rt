//! A pool of volumes with ids one behind the other, which are looked for and nothing else.
use tp_model::{Cloned, DevId, Geometry, Mode, Refusal, Slots, Vb, Volumes, Walked};

/// So many volumes from an id on, of so many blocks each, or of a size that is refused. It is read-only, and no volume of it is read or held.
#[derive(Drop)]
pub(crate) struct Table {
    pub(crate) geometry: Geometry,
    pub(crate) first: u32,
    pub(crate) count: u32,
    pub(crate) blocks: Option<u32>,
}

impl Table {
    /// The least id from this one on.
    fn least(&self, from: u32) -> Option<DevId> {
        let id = from.max(self.first);
        if id < 16_777_216 && id - self.first < self.count {
            Some(DevId::new(id))
        } else {
            None
        }
    }
}

impl Volumes for Table {
    ghost use Rattle.tp_unit_tests.specs.Untold.{nothing_holds, untold};

    ghost view = { untold (λ t. t.geometry) };

    fn geometry(&self) -> Geometry {
        self.geometry
    }

    fn mode(&self) -> Mode {
        Mode::ReadOnly
    }

    fn read(&mut self, _id: DevId, _sector: u64, _out: &mut [u8]) -> Result<(), Refusal> {
        Err(Refusal::NoSuchDevice)
    }

    fn write(
        &mut self,
        _id: DevId,
        _sector: u64,
        _bytes: &[u8],
        _fua: bool,
    ) -> Result<(), Refusal> {
        Err(Refusal::NoSuchDevice)
    }

    fn trim(&mut self, _id: DevId, _sector: u64, _count: u64, _fua: bool) -> Result<(), Refusal> {
        Err(Refusal::NoSuchDevice)
    }

    fn write_zeroes(
        &mut self,
        _id: DevId,
        _sector: u64,
        _count: u64,
        _no_hole: bool,
        _fua: bool,
    ) -> Result<(), Refusal> {
        Err(Refusal::NoSuchDevice)
    }

    fn flush(&mut self) -> Result<(), Refusal> {
        Ok(())
    }

    fn next_id(&mut self, from: DevId) -> Result<Option<DevId>, Refusal> {
        Ok(self.least(from.number()))
    }

    fn volume_blocks(&mut self, _id: DevId) -> Result<u32, Refusal> {
        match self.blocks {
            Some(blocks) => Ok(blocks.min(16_777_216)),
            None => Err(Refusal::Damaged),
        }
    }

    fn hold(&mut self, _id: DevId) -> Result<(), Refusal> {
        Err(Refusal::NoSuchDevice)
    }

    fn let_go(&mut self, _id: DevId) {}

    ghost laws = { nothing_holds (λ t. t.geometry) };
}

impl Walked for Table {
    fn walk(&mut self, _id: DevId, _from: Vb, _slots: &mut Slots) -> Result<(), Refusal> {
        Err(Refusal::NoSuchDevice)
    }
}

impl Cloned for Table {
    fn create_snap(&mut self, _id: DevId, _origin: DevId) -> Result<(), Refusal> {
        Err(Refusal::ReadOnly)
    }

    fn delete(&mut self, _id: DevId) -> Result<(), Refusal> {
        Err(Refusal::ReadOnly)
    }
}
