//! A new pool for what it is to hold.

ghost use Rattle.std.specs.Prelude.{◌≡◌, ◌++◌, IfOk, MatchBool, is_ok};
ghost use Rattle.tp_model.specs.Disk.{after_read};
ghost use Rattle.tp_commands.specs.Creating.{Creates, CreatesSized, CreatesThere, IsOther, IsOwn, Judges, Looks, sizes_of, wanted_of};
ghost use Rattle.tp_failures.specs.Failures.{number_of};

use crate::asking::format;
use std::alloc::Global;
use std::io::Write;
use tp_devices::is_free;
use tp_disk::{Disk, Fault, TellsTrouble};
use tp_failures::Failure;
use tp_hub::Stream;
use tp_images::Images;
use tp_model::{Geometry, Refusal};
use tp_progress::Progress;
use tp_sizing::sizes_for;
use tp_texts::write_sizes;
use tp_words::{Sizes, Wanted};

/// The two superblock slots of a pool stand in so many sectors.
const HEAD: u64 = 16;

/// The sizes of a pool as words would give them.
fn sizes_of(geometry: &Geometry) -> Sizes
    ensures { result ≡ sizes_of geometry.now }
{
    Sizes {
        block_sectors: geometry.block_sectors() as u64,
        virtual_blocks: geometry.virtual_blocks() as u64,
        metadata_blocks: geometry.metadata_blocks() as u64,
        data_blocks: geometry.data_blocks() as u64,
    }
}

/// What is wanted of a pool, as the words give it.
fn wanted_of(wanted: &Wanted) -> tp_sizing::Wanted
    ensures { result ≡ wanted_of wanted.now }
{
    tp_sizing::Wanted {
        size: wanted.size,
        volume_size: wanted.volume_size,
        volumes: wanted.volumes,
        block_size: wanted.block_size,
    }
}

/// Whether what an image of this many bytes holds may be lost: nothing, or a head that is zeros or a pool's.
fn is_own<D: Disk>(disk: &mut D, bytes: u64) -> Result<bool, Fault>
    ensures found { IfOk result (λ own. MatchBool own (IsOwn (D.state disk.old)) (IsOther (D.state disk.old))) }
    ensures state { D.state disk.new ≡ after_read (is_ok result) (D.state disk.old) }
{
    let sectors = disk.sectors();
    if sectors >= HEAD {
        return is_free(disk);
    }
    if sectors == 0 && bytes == 0 {
        return Ok(true);
    }
    Ok(false)
}

/// The disk of an image, as it is, and whether what it holds may be lost.
fn judged<D: Disk + TellsTrouble>(mut disk: D, bytes: u64) -> (D, Result<(), Failure>)
    ensures { Judges (number_of result.1) (D.state disk) (D.state result.0) }
{
    match is_own(&mut disk, bytes) {
        Ok(own) => {
            if own {
                (disk, Ok(()))
            } else {
                (disk, Err(Failure::taken()))
            }
        }
        Err(_) => {
            let why = Failure::on_disk(Refusal::Fault, disk.trouble());
            (disk, Err(why))
        }
    }
}

/// Looks at what an image holds, if it can be opened: `Exists` if that is neither zeros nor a pool.
fn look_at<I: Images>(images: &mut I, name: &str) -> Result<(), Failure>
    ensures { Looks name.now (I.deeds images.old) (I.deeds images.new) (number_of result) }
{
    let bytes = images.length(name).unwrap_or(0);
    match images.open_to_read(name) {
        Ok(disk) => {
            let (disk, told) = judged(disk, bytes);
            images.close(name, disk);
            told
        }
        Err(_) => Ok(()),
    }
}

/// Prints the sizes of a pool, and makes an image that of an empty one.
fn create_sized<I: Images, S: Stream, E: Write, P: Progress + Drop>(
    images: &mut I,
    alloc: Global,
    image: &str,
    geometry: &Geometry,
    overwrites: bool,
    asks: bool,
    progress: P,
    stream: &mut S,
    errors: &mut E,
) -> Result<(), Failure>
    ensures { CreatesSized asks image.now geometry.now overwrites (I.deeds images.old) (I.deeds images.new) (S.calls stream.old) (S.calls stream.new) (number_of result) }
{
    if !write_sizes(stream, geometry) {
        return Err(Failure::from(Refusal::Fault));
    }
    let sizes = sizes_of(geometry);
    format(
        images, alloc, image, &sizes, overwrites, asks, progress, stream, errors,
    )
}

/// Prints the sizes of a pool, and makes an image that of an empty one. Unless it is overwritten whatever it holds, it is looked at first.
fn create_there<I: Images, S: Stream, E: Write, P: Progress + Drop>(
    images: &mut I,
    alloc: Global,
    image: &str,
    geometry: &Geometry,
    overwrites: bool,
    asks: bool,
    progress: P,
    stream: &mut S,
    errors: &mut E,
) -> Result<(), Failure>
    ensures { CreatesThere asks image.now geometry.now overwrites (I.deeds images.old) (I.deeds images.new) (S.calls stream.old) (S.calls stream.new) (number_of result) }
{
    if overwrites {
        return create_sized(
            images, alloc, image, geometry, overwrites, asks, progress, stream, errors,
        );
    }
    match look_at(images, image) {
        Ok(()) => create_sized(
            images, alloc, image, geometry, overwrites, asks, progress, stream, errors,
        ),
        Err(why) => Err(why),
    }
}

/// Makes an image that of an empty pool that holds what is wanted, behind a line with the four sizes that were chosen. What no pool holds is refused before the image is touched.
///
/// Unless it is overwritten whatever it holds, it is refused by `Exists` where it is not empty and its first 8192 bytes are neither zeros nor a pool's, or where it is shorter; nothing
/// is printed then, and nothing is written to it.
pub fn create<I: Images, S: Stream, E: Write, P: Progress + Drop>(
    images: &mut I,
    alloc: Global,
    image: &str,
    wanted: &Wanted,
    overwrites: bool,
    asks: bool,
    progress: P,
    stream: &mut S,
    errors: &mut E,
) -> Result<(), Failure>
    ensures { Creates asks image.now wanted.now overwrites (I.deeds images.old) (I.deeds images.new) (S.calls stream.old) (S.calls stream.new) (number_of result) }
{
    match sizes_for(&wanted_of(wanted)) {
        Ok(geometry) => create_there(
            images, alloc, image, &geometry, overwrites, asks, progress, stream, errors,
        ),
        Err(unfit) => Err(Failure::unfit(unfit)),
    }
}
