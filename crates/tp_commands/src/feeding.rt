//! One client over the pool of an image, or over one in memory, which is then closed.

ghost use Rattle.std.specs.Prelude.{◌≡◌, IfOk, List, Some, length};
ghost use Rattle.std.specs.FinMap.{empty};
ghost use Rattle.tp_disk.specs.HandedOut.{IsHandedOut};
ghost use Rattle.tp_holders.specs.Holders.{holds_of};
ghost use Rattle.tp_hub.specs.Desks.{AreAsked, Exchange};
ghost use Rattle.tp_hub.specs.Serve.{HubRuns};
ghost use Rattle.tp_failures.specs.Failures.{number_of};
ghost use Rattle.tp_commands.specs.Living.{FeedsPool};
ghost use Rattle.tp_commands.specs.Serving.{FeedsFirst, FeedsImage, FeedsOn, IsFed, told_of};

use crate::closing::{behind, end_hub};
use crate::fresh::fresh_pool;
use crate::opening::open_pool;
use nbd_session::Profile;
use std::alloc::{AllocError, Global};
use tp_cache::ReadCache;
use tp_disk::{Disk, TellsTrouble};
use tp_failures::{Cause, Failure};
use tp_hub::{Answers, Carried, Hub, OwnDesk, Stream, carry};
use tp_images::Images;
use tp_meta::Meta;
use tp_model::Refusal;
use tp_msg::Managed;
use tp_served::Served;

/// The most bytes that are read at once.
const PIECE: usize = 262_144;

/// So many zero bytes.
fn zeroes(alloc: Global, len: usize) -> Result<Vec<u8>, AllocError>
    ensures { IfOk result (λ v. length v.items ≡ len) }
{
    vec![in alloc; 0u8; len]
}

/// Serves one client over a hub, offers it this, and gives the hub back. Where there is no memory for what is read, nothing is done.
fn feed_hub<V: Managed, S: Stream>(
    alloc: Global,
    hub: Hub<V>,
    profile: &Profile,
    stream: &mut S,
) -> (Hub<V>, Carried)
    ensures { (asks : List Exchange) × AreAsked (HubRuns V.view) hub asks result.0 × IsFed profile.now asks (S.calls stream.old) (S.calls stream.new) result.1 }
{
    let Ok(mut buffer) = zeroes(alloc, PIECE) else {
        return (hub, Carried::NoMemory);
    };
    let mut out = Answers::of_a_turn(alloc);
    let mut desk = OwnDesk { alloc, hub };
    let ending = carry(&mut desk, 0, *profile, stream, &mut buffer, &mut out);
    let OwnDesk { alloc: _, hub } = desk;
    (hub, ending)
}

/// How a client's end is told. A read that fails is no refusal: it is taken as the client's hangup, as the end of the input is.
fn told(ending: Carried) -> Result<(), Failure>
    ensures { number_of result ≡ told_of ending }
{
    match ending {
        Carried::SessionOver | Carried::EndOfInput | Carried::InputFailed => Ok(()),
        Carried::LastLost | Carried::OutputFailed => Err(Failure::fault(Cause::Output)),
        Carried::NoMemory => Err(Failure::from(Refusal::Memory)),
        Carried::InUse => Err(Failure::from(Refusal::SessionInUse)),
    }
}

/// Serves one client over a pool, closes it, and hands its disk back.
fn feed_pool<D: Disk + TellsTrouble + Drop, S: Stream>(
    alloc: Global,
    pool: Served<ReadCache<D>, Meta>,
    profile: &Profile,
    stream: &mut S,
) -> (D, Result<(), Failure>)
    requires { holds_of pool.besides.holders ≡ empty }
    ensures { FeedsPool profile.now pool (S.calls stream.old) (S.calls stream.new) (number_of result.1) (D.state result.0) }
{
    let (hub, ending) = feed_hub(alloc, Hub::new(pool), profile, stream);
    let (disk, closed) = end_hub(hub);
    (disk, behind(closed, told(ending)))
}

/// Serves one client over the pool of a disk, which is handed back.
fn feed_disk<D: Disk + TellsTrouble + Drop, S: Stream>(
    alloc: Global,
    disk: D,
    profile: &Profile,
    stream: &mut S,
) -> (D, Result<(), Failure>)
    requires { IsHandedOut (D.state disk) }
    ensures { FeedsOn profile.now (S.calls stream.old) (S.calls stream.new) (number_of result.1) (D.state disk) (D.state result.0) }
{
    match open_pool(alloc, disk) {
        Ok(pool) => feed_pool(alloc, pool, profile, stream),
        Err((why, disk)) => (disk, Err(why)),
    }
}

/// Serves one client over the pool of an image, and then closes the pool. That closing is refused is told first, then that a buffer is, and that the stream
/// took no answers, which is a fault.
pub fn feed_image<I: Images, S: Stream>(
    images: &mut I,
    alloc: Global,
    name: &str,
    profile: &Profile,
    stream: &mut S,
) -> Result<(), Failure>
    ensures { FeedsImage profile.now name.now (I.deeds images.old) (I.deeds images.new) (S.calls stream.old) (S.calls stream.new) (number_of result) }
{
    match images.open(name) {
        Ok(disk) => {
            let (disk, fed) = feed_disk(alloc, disk, profile, stream);
            images.close(name, disk);
            fed
        }
        Err(error) => Err(Failure::unopened(error)),
    }
}

/// The same over a fresh pool in memory.
pub fn feed_fresh<S: Stream>(
    alloc: Global,
    profile: &Profile,
    stream: &mut S,
) -> Result<(), Failure>
    ensures { FeedsFirst profile.now (S.calls stream.old) (S.calls stream.new) (number_of result) }
{
    match fresh_pool(alloc) {
        Ok(pool) => {
            let (_, fed) = feed_pool(alloc, pool, profile, stream);
            fed
        }
        Err(reason) => Err(Failure::from(reason)),
    }
}
