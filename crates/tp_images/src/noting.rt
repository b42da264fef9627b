//! The deeds of images, one by one.
ghost use Rattle.std.specs.Prelude.{◌≡◌, ◌∷◌, []};
ghost use Rattle.tp_images.specs.Deeds.{Closes};
ghost use Rattle.tp_images.specs.Logs.{answer_deed};

use crate::log::{DeedLog, Tells};
use crate::way::Way;
use std::marker::PhantomData;
use tp_disk::{Disk, OpenError};

struct Nothing;

impl Tells<()> for Nothing {
    ghost deeds = { λ _. [] };
}

#[derive(Drop)]
struct Asked<'a, D> {
    before: &'a DeedLog,
    way: Way,
    name: &'a str,
    answer: &'a Result<D, OpenError>,
}

struct Opening<D> {
    marker: PhantomData<D>,
}

impl<'a, D: Disk> Tells<Asked<'a, D>> for Opening<D> {
    ghost deeds = { λ a. answer_deed a.way a.name.now D.state a.answer.now ∷ a.before.now.deeds };
}

#[derive(Drop)]
struct Given<'a, D> {
    before: &'a DeedLog,
    name: &'a str,
    disk: &'a D,
}

struct Closing<D> {
    marker: PhantomData<D>,
}

impl<'a, D: Disk> Tells<Given<'a, D>> for Closing<D> {
    ghost deeds = { λ a. Closes a.name.now (D.state a.disk.now) ∷ a.before.now.deeds };
}

/// No deed yet.
pub(crate) fn no_deeds() -> DeedLog
    ensures { result.deeds ≡ [] }
{
    DeedLog::of::<(), Nothing>(&())
}

/// The deeds behind a call that is to open an image, with what it answered.
pub(crate) fn opened<D: Disk>(
    before: &DeedLog,
    way: Way,
    name: &str,
    answer: &Result<D, OpenError>,
) -> DeedLog
    ensures { result.deeds ≡ answer_deed way name.now D.state answer.now ∷ before.now.deeds }
{
    DeedLog::of::<Asked<'_, D>, Opening<D>>(&Asked {
        before,
        way,
        name,
        answer,
    })
}

/// The deeds behind the closing of an image.
pub(crate) fn closed<D: Disk>(before: &DeedLog, name: &str, disk: &D) -> DeedLog
    ensures { result.deeds ≡ Closes name.now (D.state disk.now) ∷ before.now.deeds }
{
    DeedLog::of::<Given<'_, D>, Closing<D>>(&Given { before, name, disk })
}
