//! A new pool on a device, which is as large as it is.

ghost use Rattle.std.specs.Prelude.{◌≡◌, ◌≤◌, IfErr, IfOk, IsTrue, MatchBool, false, is_ok};
ghost use Rattle.tp_model.specs.Disk.{after_read, seen};
ghost use Rattle.tp_images.specs.declared.way.Way.TheVariants.{ToWrite};
ghost use Rattle.tp_devices.specs.Heads.{IsForeign};
ghost use Rattle.tp_failures.specs.Failures.{number_of};
ghost use Rattle.tp_commands.specs.Images.{FormatsOver, MayTake, OnName};

use crate::images::format_on;
use std::alloc::Global;
use tp_devices::is_free;
use tp_disk::{Disk, Fault, TellsTrouble};
use tp_failures::{Cause, Failure};
use tp_hub::Stream;
use tp_images::Images;
use tp_model::{Geometry, Refusal};
use tp_progress::Progress;

/// Whether what a device holds may be lost. Where it is to be overwritten whatever that is, it is not looked at.
fn may_take<D: Disk>(disk: &mut D, overwrites: bool) -> Result<bool, Fault>
    requires { 16 ≤ (D.state disk.old).size }
    ensures found { IfOk result (λ may. MatchBool may (MayTake overwrites (D.state disk.old))
        ((overwrites ≡ false) × (IsTrue (D.state disk.old).is_honest → IsForeign (seen (D.state disk.old).cells)))) }
    ensures looked { IfErr result (λ _. overwrites ≡ false) }
    ensures state { D.state disk.new ≡ after_read (is_ok result) (D.state disk.old) }
{
    if overwrites {
        return Ok(true);
    }
    is_free(disk)
}

/// Makes the disk of a device that of an empty pool, and prints the pool's status line.
fn format_over<D: Disk + TellsTrouble + Drop, S: Stream, P: Progress + Drop>(
    alloc: Global,
    mut disk: D,
    geometry: Geometry,
    overwrites: bool,
    progress: P,
    stream: &mut S,
) -> (D, Result<(), Failure>)
    ensures { FormatsOver overwrites geometry (S.calls stream.old) (S.calls stream.new) (number_of result.1) (D.state disk) (D.state result.0) }
{
    let sectors = disk.sectors();
    let wanted = geometry.image_sectors();
    if sectors < wanted {
        return (disk, Err(Failure::too_small(sectors, wanted)));
    }
    match may_take(&mut disk, overwrites) {
        Ok(may) => {
            if may {
                format_on(alloc, disk, geometry, progress, stream)
            } else {
                (disk, Err(Failure::taken()))
            }
        }
        Err(_) => {
            let why = Failure::on_disk(Refusal::Fault, disk.trouble());
            (disk, Err(why))
        }
    }
}

/// Makes the device of a name that of an empty pool, and prints the pool's status line.
pub(crate) fn format_device<I: Images, S: Stream, P: Progress + Drop>(
    images: &mut I,
    alloc: Global,
    name: &str,
    geometry: Geometry,
    overwrites: bool,
    progress: P,
    stream: &mut S,
) -> Result<(), Failure>
    ensures { OnName ToWrite name.now (I.deeds images.old) (I.deeds images.new) (S.calls stream.old) (S.calls stream.new) (number_of result)
        (FormatsOver overwrites geometry (S.calls stream.old) (S.calls stream.new) (number_of result)) }
{
    match images.open(name) {
        Ok(disk) => {
            let (disk, told) = format_over(alloc, disk, geometry, overwrites, progress, stream);
            images.close(name, disk);
            told
        }
        Err(error) => Err(Failure::unopened(error)),
    }
}
