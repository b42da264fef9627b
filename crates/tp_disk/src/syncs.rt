//! Which writes of a file are on the device.
ghost use Rattle.std.specs.Prelude.{◌≡◌, ◌<◌, ◌^◌, IfOk, IfSome};
ghost use Rattle.std.specs.Bool.{OnTrue};

use crate::image_file::ImageFile;
use std::io;
use std::sync::Mutex;
use std::sync::atomic::{AtomicU64, Ordering};

/// What the system says where a device fails, of a failure that has no number.
pub(crate) const EIO: i32 = 5;

/// A sync of a file that succeeded, behind so many of its writes: what these wrote is on the device. Nothing but a sync makes one.
#[derive(Clone, Copy)]
pub struct Synced {
    /// It stays at the greatest `u64`.
    writes: u64,
}

/// The syncs of a file that are made while others read it.
#[derive(Drop)]
pub struct Syncs {
    /// The newest of those that succeeded.
    ahead: Mutex<Option<Synced>>,
    /// What the system said of a sync that failed, as its number; 0 where none did.
    refusal: AtomicU64,
}

impl Synced {
    ghost use Rattle.tp_disk.specs.Syncs.{writes_of};

    /// The sync of a file that is opened, of all that it has.
    pub(crate) fn at_opening<F: ImageFile>(file: &F) -> io::Result<Synced>
        ensures { IfOk result (λ synced. writes_of synced ≡ 0) }
    {
        file.sync_all()?;
        Ok(Synced { writes: 0 })
    }

    /// Whether it was made behind so many writes. Where writes are no longer counted, none is known to be.
    pub(crate) fn is_behind(&self, writes: u64) -> bool
        ensures { OnTrue result (writes_of self.now ≡ writes) }
    {
        self.writes == writes && writes < u64::MAX
    }
}

impl Syncs {
    ghost use Rattle.tp_disk.specs.Syncs.{writes_of};

    /// None yet.
    pub(crate) fn none() -> Syncs {
        Syncs {
            ahead: Mutex::new(None),
            refusal: AtomicU64::new(0),
        }
    }

    /// Refuses where a sync failed before. The system tells once that it could not bring something to the device, and forgets then that it was written:
    /// what it says of a later sync is worth nothing.
    fn go_on(&self) -> io::Result<()> {
        match self.refusal.load(Ordering::SeqCst) {
            0 => Ok(()),
            code => Err(io::Error::from_raw_os_error(i32::try_from(code).unwrap_or(EIO))),
        }
    }

    /// Waits until the system has brought to the device what so many writes wrote to a file. Once one sync has failed, all do.
    fn sync<F: ImageFile>(&self, file: &F, writes: u64) -> io::Result<Synced>
        ensures { IfOk result (λ synced. writes_of synced ≡ writes) }
    {
        self.go_on()?;
        if let Err(error) = file.sync_data() {
            let code = error.raw_os_error().unwrap_or(EIO);
            self.refusal.store(u64::try_from(code).unwrap_or(EIO as u64), Ordering::SeqCst);
            return Err(error);
        }
        Ok(Synced { writes })
    }

    /// One that was made ahead behind so many writes, if there is one.
    fn made_ahead(&self, writes: u64) -> Option<Synced>
        ensures { IfSome result (λ synced. writes_of synced ≡ writes) }
    {
        let newest = match self.ahead.try_lock() {
            Some(newest) => *newest,
            None => None,
        };
        match newest {
            Some(synced) if synced.is_behind(writes) => Some(synced),
            _ => None,
        }
    }

    /// A sync behind so many writes of a file: one that was made ahead, or a new one. Refused by the system, and where one was before.
    pub(crate) fn behind<F: ImageFile>(&self, file: &F, writes: u64) -> io::Result<Synced>
        ensures { IfOk result (λ synced. writes_of synced ≡ writes) }
    {
        self.go_on()?;
        match self.made_ahead(writes) {
            Some(synced) => Ok(synced),
            None => self.sync(file, writes),
        }
    }

    /// Syncs a file behind so many writes, while others read it, for who asks for that sync next. Where another thread is about it, its sync may be
    /// forgotten.
    pub(crate) fn ahead<F: ImageFile>(&self, file: &F, writes: u64) {
        if let Ok(synced) = self.behind(file, writes) {
            if let Some(mut newest) = self.ahead.try_lock() {
                *newest = Some(synced);
            }
        }
    }
}
