//! The commands on one image: status lines, messages, new pools and checks.

ghost use Rattle.std.specs.Prelude.{◌≡◌, ◌↔◌, ◌≤◌, IfErr, IfOk, IsOk, Some, ℕ};
ghost use Rattle.tp_model.specs.Geometry.{IsWithinLimits, sectors_of_image};
ghost use Rattle.tp_disk.specs.HandedOut.{IsHandedOut};
ghost use Rattle.tp_images.specs.declared.way.Way.TheVariants.{ToMake};
ghost use Rattle.tp_failures.specs.Failures.{number_of};
ghost use Rattle.tp_commands.specs.Images.{FormatsOn, FormatsWhole, GivesOn, IsChecked, IsCleared, IsFormatted, IsLetGo, IsMessageGiven, IsStatusTold, IsTried, MakesPool, OnName, PrintsCheck, PrintsCleared, TellsOn, TriesOn, sizes_asked};

use crate::caches::ROOM;
use crate::clearing::tell_cleared;
use crate::devices::format_device;
use crate::opening::open_pool;
use crate::telling::{give_line, print_status, tell_check, tell_status};
use std::alloc::Global;
use tp_cache::ReadCache;
use tp_disk::{Disk, TellsTrouble};
use tp_failures::{Failure, because};
use tp_hub::Stream;
use tp_images::Images;
use tp_meta::Meta;
use tp_model::{DevId, Geometry, Refusal};
use tp_progress::{Followed, Progress};
use tp_served::Served;
use tp_words::Sizes;

/// The disk of a pool that is let go as it is, and what is told, with the cause of a refusal.
pub(crate) fn hand_back<D: Disk + TellsTrouble + Drop>(
    pool: Served<ReadCache<D>, Meta>,
    told: Result<(), Refusal>,
) -> (D, Result<(), Failure>)
    ensures disk { IsLetGo pool (D.state result.0) }
    ensures told { number_of result.1 ≡ told }
{
    pool.facts();
    let disk = pool.into_disk();
    let told = because(&disk, told);
    (disk, told)
}

/// Prints the status line of the pool of a disk, or of one of its volumes.
fn tell_status_on<D: Disk + TellsTrouble + Drop, S: Stream>(
    alloc: Global,
    disk: D,
    id: Option<DevId>,
    stream: &mut S,
) -> (D, Result<(), Failure>)
    requires { IsHandedOut (D.state disk) }
    ensures { TellsOn id (S.calls stream.old) (S.calls stream.new) (number_of result.1) (D.state disk) (D.state result.0) }
{
    match open_pool(alloc, disk) {
        Ok(mut pool) => {
            let told = tell_status(&mut pool, id, stream);
            hand_back(pool, told)
        }
        Err((why, disk)) => (disk, Err(why)),
    }
}

/// Prints the status line of the pool of an image, or of one of its volumes. The image is opened to read alone.
pub fn status_of_image<I: Images, S: Stream>(
    images: &mut I,
    alloc: Global,
    name: &str,
    id: Option<DevId>,
    stream: &mut S,
) -> Result<(), Failure>
    ensures { IsStatusTold name.now id (I.deeds images.old) (I.deeds images.new) (S.calls stream.old) (S.calls stream.new) (number_of result) }
{
    match images.open_to_read(name) {
        Ok(disk) => {
            let (disk, told) = tell_status_on(alloc, disk, id, stream);
            images.close(name, disk);
            told
        }
        Err(error) => Err(Failure::unopened(error)),
    }
}

/// Gives the pool of a disk the message of a line, and prints `ok` where it is accepted. The pool is opened before the line is read.
fn give_line_on<D: Disk + TellsTrouble + Drop, S: Stream>(
    alloc: Global,
    disk: D,
    line: &str,
    stream: &mut S,
) -> (D, Result<(), Failure>)
    requires { IsHandedOut (D.state disk) }
    ensures { GivesOn line.now (S.calls stream.old) (S.calls stream.new) (number_of result.1) (D.state disk) (D.state result.0) }
{
    match open_pool(alloc, disk) {
        Ok(mut pool) => {
            let told = give_line(&mut pool, line, stream);
            hand_back(pool, told)
        }
        Err((why, disk)) => (disk, Err(why)),
    }
}

/// Gives the pool of an image the message of a line, and prints `ok` where it is accepted. The image is opened before the line is read.
pub fn message_to_image<I: Images, S: Stream>(
    images: &mut I,
    alloc: Global,
    name: &str,
    line: &str,
    stream: &mut S,
) -> Result<(), Failure>
    ensures { IsMessageGiven name.now line.now (I.deeds images.old) (I.deeds images.new) (S.calls stream.old) (S.calls stream.new) (number_of result) }
{
    match images.open(name) {
        Ok(disk) => {
            let (disk, told) = give_line_on(alloc, disk, line, stream);
            images.close(name, disk);
            told
        }
        Err(error) => Err(Failure::unopened(error)),
    }
}

/// Opens the pool of a disk, and lets it go as it is.
fn try_disk<D: Disk + TellsTrouble + Drop>(alloc: Global, disk: D) -> (D, Result<(), Failure>)
    requires { IsHandedOut (D.state disk) }
    ensures { TriesOn (number_of result.1) (D.state disk) (D.state result.0) }
{
    match open_pool(alloc, disk) {
        Ok(pool) => hand_back(pool, Ok(())),
        Err((why, disk)) => (disk, Err(why)),
    }
}

/// Opens the pool of an image, and lets it go as it is: why it cannot be opened, if it cannot.
pub fn try_image<I: Images>(images: &mut I, alloc: Global, name: &str) -> Result<(), Failure>
    ensures { IsTried name.now (I.deeds images.old) (I.deeds images.new) (number_of result) }
{
    match images.open(name) {
        Ok(disk) => {
            let (disk, told) = try_disk(alloc, disk);
            images.close(name, disk);
            told
        }
        Err(error) => Err(Failure::unopened(error)),
    }
}

/// The sizes of a pool, or `BadGeometry` where one is out of its limits.
pub(crate) fn geometry_of(sizes: &Sizes) -> Result<Geometry, Refusal>
    ensures good { IfOk result (λ g. g ≡ sizes_asked sizes.now) }
    ensures limits { IsOk result ↔ IsWithinLimits (sizes_asked sizes.now) }
    ensures refused { IfErr result (λ reason. reason ≡ Refusal.BadGeometry) }
{
    Geometry::new(
        sizes.block_sectors,
        sizes.virtual_blocks,
        sizes.metadata_blocks,
        sizes.data_blocks,
    )
}

/// Makes a disk that of an empty pool, and prints the pool's status line.
fn format_disk<D: Disk + TellsTrouble + Drop, S: Stream>(
    alloc: Global,
    disk: D,
    geometry: Geometry,
    stream: &mut S,
) -> (D, Result<(), Failure>)
    requires { sectors_of_image geometry ≤ (D.state disk).size }
    ensures { FormatsOn geometry (S.calls stream.old) (S.calls stream.new) (number_of result.1) (D.state disk) (D.state result.0) }
{
    match Served::format(alloc, disk, geometry, ROOM) {
        Ok(mut pool) => {
            let told = print_status(&mut pool, stream);
            hand_back(pool, told)
        }
        Err((refusal, disk)) => {
            let why = Failure::on_disk(refusal, disk.trouble());
            (disk, Err(why))
        }
    }
}

/// The same, and tells how far it is.
pub(crate) fn format_on<D: Disk + TellsTrouble + Drop, S: Stream, P: Progress + Drop>(
    alloc: Global,
    disk: D,
    geometry: Geometry,
    progress: P,
    stream: &mut S,
) -> (D, Result<(), Failure>)
    requires { sectors_of_image geometry ≤ (D.state disk).size }
    ensures { FormatsOn geometry (S.calls stream.old) (S.calls stream.new) (number_of result.1) (D.state disk) (D.state result.0) }
{
    let (followed, told) = format_disk(alloc, Followed::new(disk, progress), geometry, stream);
    (followed.into_disk(), told)
}

/// Makes an image that of an empty pool, and prints the pool's status line.
fn format_sized<I: Images, S: Stream, P: Progress + Drop>(
    images: &mut I,
    alloc: Global,
    name: &str,
    geometry: Geometry,
    progress: P,
    stream: &mut S,
) -> Result<(), Failure>
    ensures { OnName ToMake name.now (I.deeds images.old) (I.deeds images.new) (S.calls stream.old) (S.calls stream.new) (number_of result)
        (FormatsWhole geometry (S.calls stream.old) (S.calls stream.new) (number_of result)) }
{
    match images.create(name, geometry.image_sectors()) {
        Ok(disk) => {
            let (disk, told) = format_on(alloc, disk, geometry, progress, stream);
            images.close(name, disk);
            told
        }
        Err(error) => Err(Failure::unopened(error)),
    }
}

/// Makes an image, or a device where one stands under the name, that of an empty pool, and prints the pool's status line.
fn format_there<I: Images, S: Stream, P: Progress + Drop>(
    images: &mut I,
    alloc: Global,
    name: &str,
    geometry: Geometry,
    overwrites: bool,
    progress: P,
    stream: &mut S,
) -> Result<(), Failure>
    ensures { MakesPool name.now overwrites geometry (I.deeds images.old) (I.deeds images.new) (S.calls stream.old) (S.calls stream.new) (number_of result) }
{
    if images.is_device(name) {
        return format_device(images, alloc, name, geometry, overwrites, progress, stream);
    }
    format_sized(images, alloc, name, geometry, progress, stream)
}

/// Makes an image that of an empty pool, and prints the pool's status line. Sizes that are out of their limits are refused before the image is touched; it has the
/// size that is asked for from then on, also where formatting is refused.
///
/// A device stays as large as it is, which has to be the pool's size at least, and else is refused by `BadGeometry`. Unless it is overwritten whatever it holds, it is
/// refused by `Exists` where its first 8192 bytes are neither zeros nor a pool's, and nothing is written to it.
pub fn format_image<I: Images, S: Stream, P: Progress + Drop>(
    images: &mut I,
    alloc: Global,
    name: &str,
    sizes: &Sizes,
    overwrites: bool,
    progress: P,
    stream: &mut S,
) -> Result<(), Failure>
    ensures { IsFormatted name.now sizes.now overwrites (I.deeds images.old) (I.deeds images.new) (S.calls stream.old) (S.calls stream.new) (number_of result) }
{
    match geometry_of(sizes) {
        Ok(geometry) => format_there(images, alloc, name, geometry, overwrites, progress, stream),
        Err(reason) => Err(Failure::from(reason)),
    }
}

/// The volume of which a status is asked, or `BadDeviceId`.
pub fn volume_asked(id: Option<u64>) -> Result<Option<DevId>, Refusal>
    ensures asked { IfOk result (λ asked. asked ≡ id) }
    ensures refused { IfErr result (λ reason. (reason ≡ Refusal.BadDeviceId) × (number : ℕ) × (id ≡ Some number) × (16777216 ≤ number)) }
{
    match id {
        None => Ok(None),
        Some(number) => match DevId::checked(number) {
            Ok(id) => Ok(Some(id)),
            Err(reason) => Err(reason),
        },
    }
}

/// Checks the image on a disk, and prints `clean` where it is clean.
fn check_disk<D: Disk + TellsTrouble, S: Stream>(
    alloc: Global,
    mut disk: D,
    stream: &mut S,
) -> (D, Result<(), Failure>)
    ensures { PrintsCheck (S.calls stream.old) (S.calls stream.new) (number_of result.1) (D.state disk) (D.state result.0) }
{
    let told = tell_check(alloc, &mut disk, stream);
    let told = because(&disk, told);
    (disk, told)
}

/// The same, and tells how far it is.
fn check_on<D: Disk + TellsTrouble + Drop, S: Stream, P: Progress + Drop>(
    alloc: Global,
    disk: D,
    progress: P,
    stream: &mut S,
) -> (D, Result<(), Failure>)
    ensures { PrintsCheck (S.calls stream.old) (S.calls stream.new) (number_of result.1) (D.state disk) (D.state result.0) }
{
    let (followed, told) = check_disk(alloc, Followed::new(disk, progress), stream);
    (followed.into_disk(), told)
}

/// Checks an image, and prints `clean` where it is clean. The image is opened to read alone.
pub fn check_image<I: Images, S: Stream, P: Progress + Drop>(
    images: &mut I,
    alloc: Global,
    name: &str,
    progress: P,
    stream: &mut S,
) -> Result<(), Failure>
    ensures { IsChecked name.now (I.deeds images.old) (I.deeds images.new) (S.calls stream.old) (S.calls stream.new) (number_of result) }
{
    match images.open_to_read(name) {
        Ok(disk) => {
            let (disk, told) = check_on(alloc, disk, progress, stream);
            images.close(name, disk);
            told
        }
        Err(error) => Err(Failure::unopened(error)),
    }
}

/// Checks the image on a disk and, where it is clean, keeps its pool as one that wants no check, and then prints `clean`.
fn clear_disk<D: Disk + TellsTrouble, S: Stream>(
    alloc: Global,
    mut disk: D,
    stream: &mut S,
) -> (D, Result<(), Failure>)
    ensures { PrintsCleared (S.calls stream.old) (S.calls stream.new) (number_of result.1) (D.state disk) (D.state result.0) }
{
    let told = tell_cleared(alloc, &mut disk, stream);
    let told = because(&disk, told);
    (disk, told)
}

/// The same, and tells how far it is.
fn clear_on<D: Disk + TellsTrouble + Drop, S: Stream, P: Progress + Drop>(
    alloc: Global,
    disk: D,
    progress: P,
    stream: &mut S,
) -> (D, Result<(), Failure>)
    ensures { PrintsCleared (S.calls stream.old) (S.calls stream.new) (number_of result.1) (D.state disk) (D.state result.0) }
{
    let (followed, told) = clear_disk(alloc, Followed::new(disk, progress), stream);
    (followed.into_disk(), told)
}

/// Checks an image and, where it is clean, keeps its pool as one that wants no check, and then prints `clean`. What is not clean is not written. The image is
/// opened to write.
pub fn clear_image<I: Images, S: Stream, P: Progress + Drop>(
    images: &mut I,
    alloc: Global,
    name: &str,
    progress: P,
    stream: &mut S,
) -> Result<(), Failure>
    ensures { IsCleared name.now (I.deeds images.old) (I.deeds images.new) (S.calls stream.old) (S.calls stream.new) (number_of result) }
{
    match images.open(name) {
        Ok(disk) => {
            let (disk, told) = clear_on(alloc, disk, progress, stream);
            images.close(name, disk);
            told
        }
        Err(error) => Err(Failure::unopened(error)),
    }
}
