//! How a file is opened, before it is a disk.

ghost use Rattle.std.specs.Prelude.{◌≡◌, IfOk, Ok};
ghost use Rattle.tp_disk.specs.Streams.{IsNoStream};

use crate::image_file::ImageFile;
use std::fmt::{self, Display, Formatter};
use std::fs::{self, File, Metadata, OpenOptions, TryLockError};
use std::io::{self, ErrorKind, Seek, SeekFrom};
use std::os::fd::AsRawFd;
use std::os::unix::fs::{FileExt, FileTypeExt, OpenOptionsExt};
use std::rt::Files;

/// The rights of a file that is made: its owner alone reads and writes it.
const OWNER_ONLY: u32 = 0o600;

/// The descriptors of the standard streams are 0 to this one.
const LAST_STREAM: i32 = 2;

/// By `lseek`: the next byte at an offset or behind it that is data, and the next that is in a hole.
const SEEK_DATA: i32 = 3;

const SEEK_HOLE: i32 = 4;

/// A system call that opening a file as a disk makes.
#[derive(Clone, Copy, Debug, PartialEq, Eq)]
pub enum OpenStep {
    Open,
    Lock,
    Measure,
    SetLength,
    Sync,
    DropCached,
    SyncFolder,
}

/// Why a file was not opened as a disk. The text follows the file's name.
#[derive(Clone, Copy, Debug)]
pub enum OpenError {
    /// The system call of this step failed.
    System { step: OpenStep, error: io::Error },
    /// It is neither a regular file nor a block device.
    NotRegular,
    /// Another open file has its lock.
    InUse,
    /// It would have more than 2^54 sectors.
    TooLarge,
    /// A standard stream is closed, and the file got its descriptor.
    StandardStream,
}

impl OpenStep {
    /// What the system answered to this step, as an answer of opening.
    pub(crate) fn tried<T: Drop>(self, answer: io::Result<T>) -> Result<T, OpenError>
        ensures { IfOk result (λ value. answer ≡ Ok value) }
    {
        match answer {
            Ok(value) => Ok(value),
            Err(error) => Err(OpenError::System { step: self, error }),
        }
    }
}

impl Display for OpenStep {
    fn fmt<W: fmt::Write>(&self, f: &mut Formatter<W>) -> fmt::Result {
        f.write_str(match self {
            OpenStep::Open => "cannot be opened",
            OpenStep::Lock => "cannot be locked",
            OpenStep::Measure => "has a length that cannot be read",
            OpenStep::SetLength => "cannot be resized",
            OpenStep::Sync => "cannot be synced",
            OpenStep::DropCached => "cannot be dropped from the page cache",
            OpenStep::SyncFolder => "is in a directory that cannot be synced",
        })
    }
}

impl Display for OpenError {
    fn fmt<W: fmt::Write>(&self, f: &mut Formatter<W>) -> fmt::Result {
        match self {
            OpenError::System { step, error } => write!(f, "{step}: {error}"),
            OpenError::NotRegular => f.write_str("is neither a regular file nor a block device"),
            OpenError::InUse => f.write_str("is in use by another process, which holds its lock"),
            OpenError::TooLarge => f.write_str("is larger than 2^54 sectors of 512 bytes"),
            OpenError::StandardStream => f.write_str(
                "would be opened as a standard stream, because one is closed",
            ),
        }
    }
}

/// A file that has none of the descriptors of standard streams.
fn apart(file: File) -> Result<File, OpenError>
    ensures { IfOk result (λ file. IsNoStream file) }
{
    if file.as_raw_fd() <= LAST_STREAM {
        return Err(OpenError::StandardStream);
    }
    Ok(file)
}

/// An existing file, to read and write.
pub(crate) fn open_there<R: Files<File = File>>(rt: &R, path: &str) -> Result<File, OpenError>
    ensures { IfOk result (λ file. IsNoStream file) }
{
    let opened = OpenOptions::new().read(true).write(true).open(rt, path);
    apart(OpenStep::Open.tried(opened)?)
}

/// Whether it is a block device.
fn is_device(found: &Metadata) -> bool {
    found.file_type().is_block_device()
}

/// An existing regular file or block device, to read alone.
pub(crate) fn open_there_to_read<R: Files<File = File>>(
    rt: &R,
    path: &str,
) -> Result<File, OpenError>
    ensures { IfOk result (λ file. IsNoStream file) }
{
    // To open a pipe to read would wait until somebody writes it.
    let found = OpenStep::Open.tried(fs::metadata(rt, path))?;
    if !found.is_file() && !is_device(&found) {
        return Err(OpenError::NotRegular);
    }
    let opened = OpenOptions::new().read(true).open(rt, path);
    apart(OpenStep::Open.tried(opened)?)
}

/// A file that was not there, to read and write.
fn make<R: Files<File = File>>(rt: &R, path: &str) -> Result<File, OpenError>
    ensures { IfOk result (λ file. IsNoStream file) }
{
    let opened = OpenOptions::new()
        .read(true)
        .write(true)
        .create_new(true)
        .mode(OWNER_ONLY)
        .open(rt, path);
    apart(OpenStep::Open.tried(opened)?)
}

/// The file of a path, to read and write, and whether it was made since there was none.
pub(crate) fn open_or_make<R: Files<File = File>>(
    rt: &R,
    path: &str,
) -> Result<(File, bool), OpenError>
    ensures { IfOk result (λ made. IsNoStream made.0) }
{
    match open_there(rt, path) {
        Ok(file) => Ok((file, false)),
        Err(OpenError::System { error, .. }) if error.kind() == ErrorKind::NotFound => {
            Ok((make(rt, path)?, true))
        }
        Err(error) => Err(error),
    }
}

/// The folder in which a path has its last part.
fn folder_of(path: &str) -> &str {
    match path.rsplit_once('/') {
        None => ".",
        Some(("", _)) => "/",
        Some((folder, _)) => folder,
    }
}

/// Waits until it is on the device which files a path's folder has.
pub(crate) fn sync_folder<R: Files<File = File>>(rt: &R, path: &str) -> Result<(), OpenError> {
    let folder = OpenStep::SyncFolder.tried(File::open(rt, folder_of(path)))?;
    OpenStep::SyncFolder.tried(folder.sync_all())
}

/// What an answer of a lock that is only tried means.
fn locked(answer: Result<(), TryLockError>) -> Result<(), OpenError> {
    match answer {
        Ok(()) => Ok(()),
        Err(TryLockError::WouldBlock) => Err(OpenError::InUse),
        Err(TryLockError::Error(error)) => Err(OpenError::System {
            step: OpenStep::Lock,
            error,
        }),
    }
}

/// A file of which this value holds the lock, and which is no standard stream.
///
/// Dropping it unlocks the file before it is closed: some shared file systems release the lock of a
/// closed file only after `close` has returned. An error of the unlocking is ignored, since closing
/// unlocks too.
pub struct LockedFile {
    file: File,
    ghost is_no_stream: { IsNoStream file },
}

impl Drop for LockedFile {
    fn drop(self) {
        let Self { file } = self;
        _ = file.unlock();
    }
}

impl LockedFile {
    /// Takes the exclusive lock of a file.
    ///
    /// Errors: `InUse` if another open file has a lock of it; `System` if the system refuses.
    pub(crate) fn exclusive(file: File) -> Result<LockedFile, OpenError>
        requires { IsNoStream file }
    {
        locked(file.try_lock())?;
        Ok(LockedFile { file })
    }

    /// Takes the shared lock of a file, of which any number may be held at once, and none beside the
    /// exclusive one.
    ///
    /// Errors: as [`LockedFile::exclusive`].
    pub(crate) fn shared(file: File) -> Result<LockedFile, OpenError>
        requires { IsNoStream file }
    {
        locked(file.try_lock_shared())?;
        Ok(LockedFile { file })
    }

    /// Sets the length of a regular file, in bytes. What is added is zero.
    ///
    /// Errors: `NotRegular` for a device, whose length is its own; `System` if the system refuses.
    pub(crate) fn set_length(&self, bytes: u64) -> Result<(), OpenError> {
        if !OpenStep::Measure.tried(self.file.metadata())?.is_file() {
            return Err(OpenError::NotRegular);
        }
        OpenStep::SetLength.tried(self.file.set_len(bytes))
    }

    /// The length of a regular file or block device, in bytes. The system reports a length of 0 in the
    /// metadata of a device.
    ///
    /// Errors: `NotRegular` for any other file; `System` if the system refuses.
    pub(crate) fn length(&self) -> Result<u64, OpenError> {
        let metadata = OpenStep::Measure.tried(self.file.metadata())?;
        if metadata.is_file() {
            return Ok(metadata.len());
        }
        if is_device(&metadata) {
            return end_of(&self.file);
        }
        Err(OpenError::NotRegular)
    }
}

impl FileExt for LockedFile {
    fn read_at(&self, buf: &mut [u8], offset: u64) -> io::Result<usize> {
        self.file.read_at(buf, offset)
    }

    fn write_at(&self, buf: &[u8], offset: u64) -> io::Result<usize> {
        self.file.write_at(buf, offset)
    }
}

impl ImageFile for LockedFile {
    fn sync_all(&self) -> io::Result<()> {
        self.file.sync_all()
    }

    fn sync_data(&self) -> io::Result<()> {
        self.file.sync_data()
    }

    /// Linux marks a page clean even if writing it to the device failed, and a client of shared
    /// storage may keep pages that another host has overwritten. Dirty pages stay, so the file must be
    /// synced first. Pages that another process has mapped stay too, and the answer is `Ok` all the
    /// same.
    fn drop_cached(&self) -> io::Result<()> {
        match libc::posix_fadvise(self.file.as_raw_fd(), 0, 0, libc::POSIX_FADV_DONTNEED) {
            0 => Ok(()),
            code => Err(io::Error::from_raw_os_error(code)),
        }
    }

    /// A block device refuses both calls. They move the position of the file, which nothing here uses.
    fn is_hole(&self, from: u64, len: u64) -> bool {
        let fd = self.file.as_raw_fd();
        let Ok(offset) = i64::try_from(from) else {
            return false;
        };
        if libc::lseek(fd, offset, SEEK_HOLE) != offset {
            return false;
        }
        match u64::try_from(libc::lseek(fd, offset, SEEK_DATA)) {
            Err(_) => true,
            Ok(data) => data >= from.saturating_add(len),
        }
    }
}

/// Where a file ends, in bytes: that is told of a device, too.
fn end_of(mut file: &File) -> Result<u64, OpenError> {
    OpenStep::Measure.tried(file.seek(SeekFrom::End(0)))
}
