//! Users of the commands on an image: each is proved from the contracts of those alone, so these are met by something and fit together.

ghost use Rattle.std.specs.Prelude.{OnOk, ℕ};
ghost use Rattle.tp_images.specs.Deeds.{AreHonest};
ghost use Rattle.tp_commands.specs.First.{first_pool};
ghost use Rattle.tp_commands.specs.Images.{sizes_asked};
ghost use Rattle.tp_headline.specs.Users.{IsFirstMade, IsFirstTold, KeepsPool};

use crate::headline::commands_go_on;
use std::alloc::Global;
use tp_commands::{format_image, message_to_image, status_of_image};
use tp_failures::Failure;
use tp_hub::Stream;
use tp_images::{Images, MemImages};
use tp_model::DevId;
use tp_words::Sizes;

/// Makes an image of a pool, and in it a volume of id 0.
fn make_first<I: Images, S: Stream>(
    images: &mut I,
    alloc: Global,
    name: &str,
    sizes: &Sizes,
    stream: &mut S,
) -> Result<(), Failure>
    ensures { OnOk result (AreHonest (I.deeds images.new) → (used : ℕ) × IsFirstMade (sizes_asked sizes.now) used (S.calls stream.old) (S.calls stream.new)
        × KeepsPool name.now (I.deeds images.new) (first_pool (sizes_asked sizes.now) used)) }
{
    commands_go_on();
    format_image(images, alloc, name, sizes, false, (), stream)?;
    message_to_image(images, alloc, name, "create_thin 0", stream)
}

/// Makes an image of a pool, in it a volume of id 0, and then tells the status of that pool, or of the volume. Where the disks are honest, what is told is the line of the plain pool with
/// that one volume, whatever stops came between the three commands.
pub fn make_and_tell<I: Images, S: Stream>(
    images: &mut I,
    alloc: Global,
    name: &str,
    sizes: &Sizes,
    id: Option<DevId>,
    stream: &mut S,
) -> Result<(), Failure>
    ensures { OnOk result (AreHonest (I.deeds images.new) → IsFirstTold name.now (I.deeds images.new) (sizes_asked sizes.now) id (S.calls stream.old) (S.calls stream.new)) }
{
    commands_go_on();
    make_first(images, alloc, name, sizes, stream)?;
    status_of_image(images, alloc, name, id, stream)
}

/// The same over an image in memory, which is stopped in a way of one's choice before its status is told. There nothing is a premise.
pub fn make_stop_and_tell<S: Stream>(
    images: &mut MemImages,
    alloc: Global,
    name: &str,
    sizes: &Sizes,
    picks: &[u64],
    id: Option<DevId>,
    stream: &mut S,
) -> Result<(), Failure>
    ensures { OnOk result (IsFirstTold name.now images.new (sizes_asked sizes.now) id (S.calls stream.old) (S.calls stream.new)) }
{
    commands_go_on();
    make_first(images, alloc, name, sizes, stream)?;
    images.are_honest();
    let _ = images.stop(name, picks);
    status_of_image(images, alloc, name, id, stream)
}
