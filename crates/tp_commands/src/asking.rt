//! Who types `format` is asked before an image is destroyed.

ghost use Rattle.std.specs.Prelude.{◌≡◌, IfNone, IfOk, IsTrue, MatchBool, length};
ghost use Rattle.tp_model.specs.DiskStops.{moment};
ghost use Rattle.tp_disk.specs.HandedOut.{IsHandedOut};
ghost use Rattle.tp_hub.specs.Streams.{Makes};
ghost use Rattle.tp_served.specs.Served.{disk_of};
ghost use Rattle.tp_failures.specs.Failures.{number_of};
ghost use Rattle.tp_commands.specs.Asking.{FormatsAsked, LooksInto, MayDestroy, SaidYes, SaysYes, SeesNothing};
ghost use Rattle.tp_commands.specs.Images.{IsFormatted};

use crate::images::{format_image, geometry_of};
use crate::opening::open_pool;
use std::alloc::{AllocError, Global};
use std::io::Write;
use tp_cache::ReadCache;
use tp_disk::{Disk, TellsTrouble};
use tp_failures::{Cause, Failure};
use tp_hub::{Received, Stream};
use tp_images::Images;
use tp_meta::Meta;
use tp_model::{DevId, Refusal, Volumes};
use tp_progress::Progress;
use tp_served::Served;
use tp_words::Sizes;

const SECTOR: u64 = 512;

/// The most bytes of an answer that are looked at.
const ANSWER: usize = 16;

/// A pool has at most so many volumes.
const MOST_VOLUMES: u32 = 65_536;

/// What an image holds that is to be overwritten.
#[derive(Clone, Copy, Debug, PartialEq, Eq)]
enum Held {
    /// A pool with so many volumes.
    Pool(u64),
    /// So many bytes that are none, or whose volumes cannot be counted.
    Bytes(u64),
}

/// How many volumes a pool has, if its disk tells.
fn count_volumes<D: Disk + Drop>(pool: &mut Served<ReadCache<D>, Meta>) -> Option<u64>
    ensures { moment (disk_of pool.new) ≡ moment (disk_of pool.old) }
{
    let mut next = Some(DevId::new(0));
    for count in 0..=MOST_VOLUMES {
        let Some(from) = next else {
            return Some(u64::from(count));
        };
        match pool.next_id(from) {
            Ok(Some(id)) => next = DevId::checked(u64::from(id.number()) + 1).ok(),
            Ok(None) => return Some(u64::from(count)),
            Err(_) => return None,
        }
    }
    None
}

/// How many volumes the pool of a disk has, if there is one and its disk tells.
fn count_on<D: Disk + TellsTrouble + Drop>(alloc: Global, disk: D) -> (D, Option<u64>)
    requires { IsHandedOut (D.state disk) }
    ensures { moment (D.state result.0) ≡ moment (D.state disk) }
{
    match open_pool(alloc, disk) {
        Ok(mut pool) => {
            let count = count_volumes(&mut pool);
            (pool.into_disk(), count)
        }
        Err((_, disk)) => (disk, None),
    }
}

/// The bytes of an image that has some: as many as its name tells, and no fewer than its disk had.
fn bytes_of<I: Images>(images: &I, name: &str, sectors: u64) -> Option<Held>
    ensures { IfNone result (sectors ≡ 0) }
{
    let told = images.length(name).unwrap_or(0);
    let bytes = told.max(SECTOR.saturating_mul(sectors));
    if bytes > 0 {
        Some(Held::Bytes(bytes))
    } else {
        None
    }
}

/// The volumes of an image whose pool has so many, or else its bytes. Nothing where its disk had no sector.
fn held_of<I: Images>(images: &I, name: &str, count: Option<u64>, sectors: u64) -> Option<Held>
    ensures { IfNone result (sectors ≡ 0) }
{
    match count {
        Some(count) => Some(Held::Pool(count)),
        None => bytes_of(images, name, sectors),
    }
}

/// What an image holds that a format would destroy. Nothing where it is absent or empty, and where it would be refused, as one in use.
fn look_into<I: Images>(images: &mut I, alloc: Global, name: &str) -> Option<Held>
    ensures looks { LooksInto name.now (I.deeds images.old) (I.deeds images.new) }
    ensures nothing { IfNone result (SeesNothing name.now (I.deeds images.old) (I.deeds images.new)) }
{
    match images.open_to_read(name) {
        Ok(disk) => {
            let sectors = disk.sectors();
            let (disk, count) = count_on(alloc, disk);
            images.close(name, disk);
            held_of(images, name, count, sectors)
        }
        Err(_) => None,
    }
}

/// Whether a line is `yes`.
fn is_yes(line: &[u8]) -> bool
    ensures { IsTrue result → SaysYes line.now }
{
    line == b"yes\n".as_slice() || line == b"yes".as_slice() || line == b"yes\r\n".as_slice()
}

/// So many zero bytes.
fn zeroes(alloc: Global, len: usize) -> Result<Vec<u8>, AllocError>
    ensures { IfOk result (λ v. length v.items ≡ len) }
{
    vec![in alloc; 0u8; len]
}

/// Whether a terminal's next line, which one read gives, is `yes`.
fn says_yes<S: Stream>(alloc: Global, stream: &mut S) -> bool
    ensures { IsTrue result → Makes (S.calls stream.old) (S.calls stream.new) SaidYes }
{
    let Ok(mut line) = zeroes(alloc, ANSWER) else {
        return false;
    };
    match stream.receive(&mut line) {
        Received::Got(count) => is_yes(&line[..count]),
        Received::NotNow | Received::End | Received::Broken => false,
    }
}

/// Asks whether to destroy the data of an image.
fn ask<E: Write>(held: Held, name: &str, errors: &mut E) -> bool {
    let asked = match held {
        Held::Pool(1) => {
            write!(
                errors,
                "thinpool: {name} holds a pool with 1 volume; type yes to destroy it: "
            )
        }
        Held::Pool(count) => {
            write!(
                errors,
                "thinpool: {name} holds a pool with {count} volumes; type yes to destroy it: "
            )
        }
        Held::Bytes(count) => {
            write!(
                errors,
                "thinpool: {name} holds {count} bytes that are not a pool; type yes to destroy them: "
            )
        }
    };
    asked.is_ok()
}

/// Asks on `errors` whether what an image holds is to be destroyed, and tells whether the answer is `yes`. Where there is nothing to destroy nobody is asked.
fn may_destroy<I: Images, S: Stream, E: Write>(
    images: &mut I,
    alloc: Global,
    name: &str,
    stream: &mut S,
    errors: &mut E,
) -> bool
    ensures looks { LooksInto name.now (I.deeds images.old) (I.deeds images.new) }
    ensures agreed { IsTrue result → MayDestroy name.now (I.deeds images.old) (I.deeds images.new) (S.calls stream.old) (S.calls stream.new) }
{
    match look_into(images, alloc, name) {
        None => true,
        Some(held) => {
            if ask(held, name, errors) {
                says_yes(alloc, stream)
            } else {
                false
            }
        }
    }
}

/// Makes an image that of an empty pool. Where the sizes are within their limits, it is asked first whether what the image holds is to be destroyed.
fn format_asked<I: Images, S: Stream, E: Write, P: Progress + Drop>(
    images: &mut I,
    alloc: Global,
    image: &str,
    sizes: &Sizes,
    overwrites: bool,
    progress: P,
    stream: &mut S,
    errors: &mut E,
) -> Result<(), Failure>
    ensures { FormatsAsked image.now sizes.now overwrites (I.deeds images.old) (I.deeds images.new) (S.calls stream.old) (S.calls stream.new) (number_of result) }
{
    match geometry_of(sizes) {
        Ok(_) => {
            if may_destroy(images, alloc, image, stream, errors) {
                format_image(images, alloc, image, sizes, overwrites, progress, stream)
            } else {
                Err(Failure {
                    refusal: Refusal::Exists,
                    cause: Cause::Declined,
                })
            }
        }
        Err(reason) => Err(Failure::from(reason)),
    }
}

/// Makes an image that of an empty pool. Where a terminal is there to answer, it is asked first.
pub fn format<I: Images, S: Stream, E: Write, P: Progress + Drop>(
    images: &mut I,
    alloc: Global,
    image: &str,
    sizes: &Sizes,
    overwrites: bool,
    asks: bool,
    progress: P,
    stream: &mut S,
    errors: &mut E,
) -> Result<(), Failure>
    ensures { MatchBool asks
        (FormatsAsked image.now sizes.now overwrites (I.deeds images.old) (I.deeds images.new) (S.calls stream.old) (S.calls stream.new) (number_of result))
        (IsFormatted image.now sizes.now overwrites (I.deeds images.old) (I.deeds images.new) (S.calls stream.old) (S.calls stream.new) (number_of result)) }
{
    if asks {
        format_asked(
            images, alloc, image, sizes, overwrites, progress, stream, errors,
        )
    } else {
        format_image(images, alloc, image, sizes, overwrites, progress, stream)
    }
}
