//! Ghost state of a disk, as a value of no size: the state of the disk to which its contracts refer.
ghost use Rattle.std.specs.Prelude.{◌≡◌};
ghost use Rattle.std.specs.Borrow.{ftrue};
ghost use Rattle.tp_model.specs.Disk.{DiskState};
ghost use Rattle.tp_disk.specs.Shadow.{unclaimed, after_step};

use std::marker::{Model, PhantomData};

/// What happened to a disk: how it began, or a call and whether it succeeded.
#[derive(Clone, Copy)]
pub enum Step {
    /// It began with sectors of which nothing is claimed.
    Unclaimed { sectors: u64 },
    /// It began with the image in the bytes, and is honest.
    Image { sectors: u64 },
    /// A call that changed no sector, as a read.
    NoChange { ok: bool },
    /// A write of the bytes, which are the newest even where the call failed.
    Write { at: u64, ok: bool },
    Flush { ok: bool },
}

/// The state of a disk for contracts alone. It takes no bytes, and its calls do nothing when they run.
#[derive(Drop)]
pub struct Shadow {
    marker: PhantomData<u8>,
    pub ghost state: { DiskState },
}

impl Model for Shadow {
    ghost also_owns = { λ _. ftrue };
}

// A shadow has no data, so threads may share it and hand it on.
unsafe impl Send for Shadow {}

unsafe impl Sync for Shadow {}

impl Shadow {
    pub fn new() -> Shadow
        ensures { result.state ≡ unclaimed 0 }
    {
        Shadow {
            marker: PhantomData,
        }
    }

    /// Takes the step. The bytes are those of an image or a write.
    pub fn note(&mut self, _step: &Step, _bytes: &[u8])
        ensures { self.new.state ≡ after_step _step.now _bytes.now self.old.state }
    {}
}
