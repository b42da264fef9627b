//! Images in memory.
ghost use Rattle.std.specs.Prelude.{◌≡◌, []};
ghost use Rattle.tp_images.specs.Deeds.{AreHonest};
ghost use Rattle.tp_images.specs.Memory.{HandsOver, IsNew};

use crate::images::Images;
use crate::log::DeedLog;
use crate::noting::{closed, no_deeds, opened};
use crate::shelf::{Place, Stored, fail_disk, look_at, put_disk, stop_disk, take_disk};
use crate::way::Way;
use std::alloc::Global;
use std::io::ErrorKind;
use std::marker::Model;
use tp_disk::{Disk, MemDisk, OpenError, OpenStep};

const SECTOR: u64 = 512;

/// Images in memory, by name. Each keeps by proof what it is closed with. One that is closed can be stopped, and its calls made to fail; while it is handed out it
/// is refused, as one that is not there. A name can be made that of a device.
#[derive(Drop)]
pub struct MemImages {
    alloc: Global,
    shelf: Vec<Stored>,
    /// The names of devices.
    devices: Vec<Vec<u8>>,
    log: DeedLog,
}

/// What contracts see of them is their deeds.
impl Model for MemImages {
    ghost use Rattle.std.specs.Prelude.{List};
    ghost use Rattle.tp_images.specs.Deeds.{Deed};
    ghost use Rattle.tp_images.specs.Memory.{AreShelved};

    ghost Value = { List Deed };

    ghost view = { λ images. images.log.deeds };

    ghost invariant = { λ images. AreShelved images.log.deeds images.shelf.items };
}

impl MemImages {
    /// No image yet.
    pub fn new(alloc: Global) -> MemImages
        ensures { result ≡ [] }
    {
        MemImages {
            alloc,
            shelf: Vec::new(alloc),
            devices: Vec::new(alloc),
            log: no_deeds(),
        }
    }

    /// Each disk that they handed out is honest, whatever became of it since.
    pub fn are_honest(&self)
        ensures { AreHonest self.now }
    {
        let _ = &self.log;
    }

    /// Leaves of an image that is closed what a stop does: of each sector the value that its pick names, as `MemDisk::stop` says. False where there is no such image,
    /// or no memory for it, and then nothing is changed.
    pub fn stop(&mut self, name: &str, picks: &[u64]) -> bool
        ensures { self.new ≡ self.old }
    {
        stop_disk(self.alloc, &mut self.shelf, name.as_bytes(), picks)
    }

    /// Has calls fail of an image that is closed, by their numbers from its opening on, counted from 1, and those of an earlier `fail` not any more. False where there
    /// is no such image.
    pub fn fail(&mut self, name: &str, first: u64, last: u64) -> bool
        ensures { self.new ≡ self.old }
    {
        fail_disk(&mut self.shelf, name.as_bytes(), first, last)
    }

    /// Has a name be that of a device from then on, whose image is opened as it stands and never made. False where there is no memory for it, and then nothing is
    /// changed.
    pub fn fix(&mut self, name: &str) -> bool
        ensures { self.new ≡ self.old }
    {
        add_name(self.alloc, &mut self.devices, name.as_bytes())
    }
}

/// A name more, where there is memory for it.
fn add_name(alloc: Global, names: &mut Vec<Vec<u8>>, name: &[u8]) -> bool {
    match Vec::from_slice(alloc, name) {
        Ok(name) => names.push(name).is_ok(),
        Err(_) => false,
    }
}

/// Whether a name is one of these.
fn is_among(names: &[Vec<u8>], name: &[u8]) -> bool {
    for other in names {
        if other.as_slice() == name {
            return true;
        }
    }
    false
}

/// Why a name has no disk to hand out.
fn refusal(place: Place) -> OpenError {
    match place {
        Place::HandedOut => OpenError::InUse,
        _ => OpenError::System {
            step: OpenStep::Open,
            error: ErrorKind::NotFound.into(),
        },
    }
}

/// There is no memory for an image.
fn no_memory() -> OpenError {
    OpenError::System {
        step: OpenStep::SetLength,
        error: ErrorKind::OutOfMemory.into(),
    }
}

/// Takes the disk of a name out, as it is handed out anew.
fn hand_out(shelf: &mut Vec<Stored>, name: &[u8]) -> Result<MemDisk, OpenError>
    ensures { HandsOver name.now shelf.old.items shelf.new.items result }
{
    match take_disk(shelf, name) {
        Some(mut disk) => {
            disk.renew();
            Ok(disk)
        }
        None => Err(refusal(look_at(shelf, name))),
    }
}

/// A disk of zeros for a name, in the place of what was there, unless that is a device.
fn make_new(
    alloc: Global,
    shelf: &mut Vec<Stored>,
    is_device: bool,
    name: &[u8],
    sectors: u64,
) -> Result<MemDisk, OpenError>
    ensures { IsNew name.now shelf.old.items shelf.new.items sectors result }
{
    if is_device {
        return Err(OpenError::NotRegular);
    }
    make(alloc, shelf, name, sectors)
}

/// A disk of zeros for a name, in the place of what was there.
fn make(
    alloc: Global,
    shelf: &mut Vec<Stored>,
    name: &[u8],
    sectors: u64,
) -> Result<MemDisk, OpenError>
    ensures { IsNew name.now shelf.old.items shelf.new.items sectors result }
{
    if look_at(shelf, name) == Place::HandedOut {
        return Err(OpenError::InUse);
    }
    match MemDisk::new(alloc, sectors) {
        Ok(disk) => {
            if put_disk(alloc, shelf, name, None) {
                Ok(disk)
            } else {
                Err(no_memory())
            }
        }
        Err(_) => Err(no_memory()),
    }
}

impl Images for MemImages {
    type Disk = MemDisk;

    ghost deeds = { λ images. images };

    fn open(&mut self, name: &str) -> Result<MemDisk, OpenError> {
        let answer = hand_out(&mut self.shelf, name.as_bytes());
        self.log = opened(&self.log, Way::ToWrite, name, &answer);
        answer
    }

    fn open_to_read(&mut self, name: &str) -> Result<MemDisk, OpenError> {
        let answer = hand_out(&mut self.shelf, name.as_bytes());
        self.log = opened(&self.log, Way::ToRead, name, &answer);
        answer
    }

    fn create(&mut self, name: &str, sectors: u64) -> Result<MemDisk, OpenError> {
        let is_device = is_among(&self.devices, name.as_bytes());
        let answer = make_new(
            self.alloc,
            &mut self.shelf,
            is_device,
            name.as_bytes(),
            sectors,
        );
        self.log = opened(&self.log, Way::ToMake, name, &answer);
        answer
    }

    fn close(&mut self, name: &str, disk: MemDisk) {
        let _ = take_disk(&mut self.shelf, name.as_bytes());
        self.log = closed(&self.log, name, &disk);
        let _ = put_disk(self.alloc, &mut self.shelf, name.as_bytes(), Some(disk));
    }

    fn length(&self, name: &str) -> Option<u64> {
        match look_at(&self.shelf, name.as_bytes()) {
            Place::Disk(sectors) => Some(SECTOR.saturating_mul(sectors)),
            _ => None,
        }
    }

    fn is_device(&self, name: &str) -> bool {
        is_among(&self.devices, name.as_bytes())
    }
}
