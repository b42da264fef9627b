//! Images that are the files and the block devices of a system.
ghost use Rattle.std.specs.Prelude.{◌≡◌, []};
ghost use Rattle.std.specs.List.{All};
ghost use Rattle.tp_images.specs.Files.{ClaimsNothing};

use crate::images::Images;
use crate::log::DeedLog;
use crate::noting::{closed, no_deeds, opened};
use crate::way::Way;
use std::alloc::Global;
use std::fs::{self, File};
use std::os::unix::fs::FileTypeExt;
use std::rt::Files;
use tp_disk::{FileDisk, LockedFile, OpenError};

/// The files and block devices of a system, by their paths. That they are honest disks is not claimed, so nothing is said of what they hold.
#[derive(Drop)]
pub struct FileImages<'r, R>
where
    R: Files<File = File> + Alloc<A = Global>,
{
    files: &'r R,
    log: DeedLog,
    ghost unclaimed: { All ClaimsNothing log.deeds },
}

impl<'r, R> FileImages<'r, R>
where
    R: Files<File = File> + Alloc<A = Global>,
{
    /// The files of this system, none of which was asked for yet.
    pub fn new(files: &'r R) -> FileImages<'r, R>
        ensures { result.log.deeds ≡ [] }
    {
        FileImages {
            files,
            log: no_deeds(),
        }
    }
}

impl<'r, R> Images for FileImages<'r, R>
where
    R: Files<File = File> + Alloc<A = Global>,
{
    type Disk = FileDisk<LockedFile>;

    ghost deeds = { λ images. images.log.deeds };

    fn open(&mut self, name: &str) -> Result<FileDisk<LockedFile>, OpenError> {
        let answer = FileDisk::open(self.files, name);
        self.log = opened(&self.log, Way::ToWrite, name, &answer);
        answer
    }

    fn open_to_read(&mut self, name: &str) -> Result<FileDisk<LockedFile>, OpenError> {
        let answer = FileDisk::open_to_read(self.files, name);
        self.log = opened(&self.log, Way::ToRead, name, &answer);
        answer
    }

    fn create(&mut self, name: &str, sectors: u64) -> Result<FileDisk<LockedFile>, OpenError> {
        let answer = FileDisk::create(self.files, name, sectors);
        self.log = opened(&self.log, Way::ToMake, name, &answer);
        answer
    }

    fn close(&mut self, name: &str, disk: FileDisk<LockedFile>) {
        self.log = closed(&self.log, name, &disk);
    }

    fn length(&self, name: &str) -> Option<u64> {
        match fs::metadata(self.files, name) {
            Ok(found) => Some(found.len()),
            Err(_) => None,
        }
    }

    fn is_device(&self, name: &str) -> bool {
        match fs::metadata(self.files, name) {
            Ok(found) => found.file_type().is_block_device(),
            Err(_) => false,
        }
    }
}
