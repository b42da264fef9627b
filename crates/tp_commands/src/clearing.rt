//! A check that clears the flag by which a pool wants one.

ghost use Rattle.std.specs.Prelude.{IsTrue};
ghost use Rattle.tp_model.specs.Disk.{seen};
ghost use Rattle.tp_image.specs.Clean.{IsClean};
ghost use Rattle.tp_commands.specs.Images.{Clears, PrintsCleared};

use crate::telling::print_line;
use std::alloc::Global;
use tp_check::check;
use tp_disk::Disk;
use tp_hub::Stream;
use tp_meta::Meta;
use tp_model::Refusal;
use tp_pool::Pool;
use tp_stored::clean_images_are_commits;

/// Keeps the pool of a clean image as one that wants no check: Ok, `Memory`, or `Fault`.
fn clear<D: Disk>(alloc: Global, disk: &mut D) -> Result<(), Refusal>
    ensures { (IsTrue (D.state disk.old).is_honest → IsClean (seen (D.state disk.old).cells)) → Clears (D.state disk.old) (D.state disk.new) result }
{
    clean_images_are_commits();
    Pool::<D, Meta>::clear_needs_check(alloc, disk)
}

/// Checks the image on a disk and, where it is clean, keeps its pool as one that wants no check, and then prints `clean`. What is not
/// clean is not written.
pub fn tell_cleared<D: Disk, S: Stream>(
    alloc: Global,
    disk: &mut D,
    stream: &mut S,
) -> Result<(), Refusal>
    ensures { PrintsCleared (S.calls stream.old) (S.calls stream.new) result (D.state disk.old) (D.state disk.new) }
{
    match check(alloc, disk) {
        Ok(()) => print_cleared(alloc, disk, stream),
        Err(error) => Err(error.refusal()),
    }
}

/// Keeps the pool of a clean image as one that wants no check, and then prints `clean`.
fn print_cleared<D: Disk, S: Stream>(
    alloc: Global,
    disk: &mut D,
    stream: &mut S,
) -> Result<(), Refusal>
    ensures { (IsTrue (D.state disk.old).is_honest → IsClean (seen (D.state disk.old).cells))
        → PrintsCleared (S.calls stream.old) (S.calls stream.new) result (D.state disk.old) (D.state disk.new) }
{
    match clear(alloc, disk) {
        Ok(()) => print_line(stream, b"clean"),
        Err(reason) => Err(reason),
    }
}
