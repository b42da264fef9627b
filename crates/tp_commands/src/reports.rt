//! Reports of the pool of an image, which is opened to read alone.

ghost use Rattle.std.specs.Prelude.{◌≡◌, IfErr, IfOk};
ghost use Rattle.tp_disk.specs.HandedOut.{IsHandedOut};
ghost use Rattle.tp_failures.specs.Failures.{number_of};
ghost use Rattle.tp_commands.specs.Reporting.{AsksReport, HasNoId, IsReported, ReportsOn, report_of};

use crate::images::hand_back;
use crate::opening::open_pool;
use std::alloc::Global;
use tp_disk::{Disk, TellsTrouble};
use tp_failures::Failure;
use tp_hub::Stream;
use tp_images::Images;
use tp_model::{DevId, Refusal};
use tp_progress::{Followed, Progress};
use tp_reports::{Report, tell};
use tp_words::Listing;

/// Prints a report of the pool of a disk.
fn report_disk<D: Disk + TellsTrouble + Drop, S: Stream>(
    alloc: Global,
    disk: D,
    report: Report,
    is_json: bool,
    stream: &mut S,
) -> (D, Result<(), Failure>)
    requires { IsHandedOut (D.state disk) }
    ensures { ReportsOn report is_json (S.calls stream.old) (S.calls stream.new) (number_of result.1) (D.state disk) (D.state result.0) }
{
    match open_pool(alloc, disk) {
        Ok(mut pool) => {
            let told = tell(alloc, &mut pool, report, is_json, stream);
            hand_back(pool, told)
        }
        Err((why, disk)) => (disk, Err(why)),
    }
}

/// The same, and tells how far it is.
fn report_on<D: Disk + TellsTrouble + Drop, S: Stream, P: Progress + Drop>(
    alloc: Global,
    disk: D,
    report: Report,
    is_json: bool,
    progress: P,
    stream: &mut S,
) -> (D, Result<(), Failure>)
    requires { IsHandedOut (D.state disk) }
    ensures { ReportsOn report is_json (S.calls stream.old) (S.calls stream.new) (number_of result.1) (D.state disk) (D.state result.0) }
{
    let (followed, told) = report_disk(
        alloc,
        Followed::new(disk, progress),
        report,
        is_json,
        stream,
    );
    (followed.into_disk(), told)
}

/// Prints a report of the pool of an image. The image is opened to read alone.
fn report_of_image<I: Images, S: Stream, P: Progress + Drop>(
    images: &mut I,
    alloc: Global,
    name: &str,
    report: Report,
    is_json: bool,
    progress: P,
    stream: &mut S,
) -> Result<(), Failure>
    ensures { IsReported name.now report is_json (I.deeds images.old) (I.deeds images.new) (S.calls stream.old) (S.calls stream.new) (number_of result) }
{
    match images.open_to_read(name) {
        Ok(disk) => {
            let (disk, told) = report_on(alloc, disk, report, is_json, progress, stream);
            images.close(name, disk);
            told
        }
        Err(error) => Err(Failure::unopened(error)),
    }
}

/// The report that a listing asks for, or `BadDeviceId`.
fn report_asked(listing: &Listing) -> Result<Report, Refusal>
    ensures asked { IfOk result (λ report. report ≡ report_of listing.now) }
    ensures refused { IfErr result (λ reason. (reason ≡ Refusal.BadDeviceId) × HasNoId listing.now) }
{
    match *listing {
        Listing::Volumes => Ok(Report::Volumes),
        Listing::Map(id) => match DevId::checked(id) {
            Ok(id) => Ok(Report::Map(id)),
            Err(reason) => Err(reason),
        },
        Listing::Delta(old, new) => match (DevId::checked(old), DevId::checked(new)) {
            (Ok(old), Ok(new)) => Ok(Report::Delta(old, new)),
            (Err(reason), _) | (_, Err(reason)) => Err(reason),
        },
        Listing::Free => Ok(Report::Free),
    }
}

/// Prints what is asked of the pool of an image. Numbers that are no volumes' ids are refused before the image is opened.
pub fn tell_listing<I: Images, S: Stream, P: Progress + Drop>(
    images: &mut I,
    alloc: Global,
    name: &str,
    listing: &Listing,
    is_json: bool,
    progress: P,
    stream: &mut S,
) -> Result<(), Failure>
    ensures { AsksReport name.now listing.now is_json (I.deeds images.old) (I.deeds images.new) (S.calls stream.old) (S.calls stream.new) (number_of result) }
{
    match report_asked(listing) {
        Ok(report) => report_of_image(images, alloc, name, report, is_json, progress, stream),
        Err(reason) => Err(Failure::from(reason)),
    }
}
