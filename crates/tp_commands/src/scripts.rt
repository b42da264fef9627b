//! Scripts over the pool of an image, or over one in memory, which is then closed.

ghost use Rattle.std.specs.Prelude.{◌≡◌, List, Ok, false};
ghost use Rattle.std.specs.FinMap.{empty};
ghost use Rattle.tp_disk.specs.HandedOut.{IsHandedOut};
ghost use Rattle.tp_holders.specs.Holders.{holds_of};
ghost use Rattle.tp_hub.specs.Desks.{AreAsked, Exchange};
ghost use Rattle.tp_hub.specs.Serve.{HubRuns};
ghost use Rattle.tp_hub.specs.Streams.{Makes};
ghost use Rattle.tp_lines.specs.Plays.{PlaysScript};
ghost use Rattle.tp_failures.specs.Failures.{number_of};
ghost use Rattle.tp_commands.specs.Playing.{EndsScript, PlaysPool};
ghost use Rattle.tp_commands.specs.Scripts.{IsTold, PlaysFirst, PlaysImage, PlaysOn, is_bad};

use crate::closing::{end_hub, leave_hub};
use crate::fresh::fresh_pool;
use crate::opening::open_pool;
use nbd_session::Profile;
use std::alloc::Global;
use tp_cache::ReadCache;
use tp_disk::{Disk, TellsTrouble};
use tp_failures::{Cause, Failure};
use tp_hub::{Hub, OwnDesk, Stream};
use tp_images::Images;
use tp_lines::{Ended, Stopped, play_script};
use tp_meta::Meta;
use tp_model::Refusal;
use tp_msg::Managed;
use tp_served::Served;

/// Why a script was not played.
#[derive(Clone, Copy, Debug)]
pub enum Unplayed {
    /// It was refused so.
    Refused(Failure),
    /// The line of this number, counted from 1, is none.
    BadLine(u64),
}

/// What is told of a script that a line which is none did not stop, behind closing: that it is refused first.
fn told(closed: Result<(), Failure>, ended: Result<(), Stopped>) -> Result<(), Unplayed>
    requires { is_bad ended ≡ false }
    ensures { IsTold ended (number_of closed) result }
{
    match closed {
        Ok(()) => told_of(ended),
        Err(why) => Err(Unplayed::Refused(why)),
    }
}

/// The same where closing was done.
fn told_of(ended: Result<(), Stopped>) -> Result<(), Unplayed>
    requires { is_bad ended ≡ false }
    ensures { IsTold ended (Ok (tt {0})) result }
{
    match ended {
        Ok(()) => Ok(()),
        Err(Stopped::Memory) => Err(Unplayed::Refused(Failure::from(Refusal::Memory))),
        Err(Stopped::Script) => Err(Unplayed::Refused(Failure::fault(Cause::ScriptEnded))),
        Err(Stopped::Output) => Err(Unplayed::Refused(Failure::fault(Cause::Output))),
        Err(Stopped::BadLine) => Err(Unplayed::BadLine(0)),
    }
}

/// Whether a line was bad.
fn is_at_bad_line(ended: Result<(), Stopped>) -> bool
    ensures { result ≡ is_bad ended }
{
    match ended {
        Err(Stopped::BadLine) => true,
        Ok(()) | Err(Stopped::Memory | Stopped::Output | Stopped::Script) => false,
    }
}

/// Ends all sessions of a hub over which a script was played, closes its pool, unless a line was bad, and hands its disk back.
fn end_script<D: Disk + TellsTrouble + Drop>(
    hub: Hub<Served<ReadCache<D>, Meta>>,
    ended: Ended,
) -> (D, Result<(), Unplayed>)
    ensures { EndsScript hub ended.result ended.played result.1 (D.state result.0) }
{
    let Ended { result, played } = ended;
    if is_at_bad_line(result) {
        let line = Unplayed::BadLine(played.saturating_add(1));
        return (leave_hub(hub), Err(line));
    }
    let (disk, closed) = end_hub(hub);
    (disk, told(closed, result))
}

/// Plays the script that a stream gives over a hub, offers this to each client, and gives the hub back.
fn play_hub<V: Managed, S: Stream>(
    alloc: Global,
    hub: Hub<V>,
    profile: &Profile,
    stream: &mut S,
) -> (Hub<V>, Ended)
    ensures { (asks : List Exchange) × AreAsked (HubRuns V.view) hub asks result.0
        × Makes (S.calls stream.old) (S.calls stream.new) (λ did. PlaysScript profile.now asks did result.1.played result.1.result) }
{
    let mut desk = OwnDesk { alloc, hub };
    let ended = play_script(alloc, &mut desk, profile, stream);
    let OwnDesk { alloc: _, hub } = desk;
    (hub, ended)
}

/// Plays a script over a pool, closes it, unless a line was bad, and hands its disk back.
fn play_pool<D: Disk + TellsTrouble + Drop, S: Stream>(
    alloc: Global,
    pool: Served<ReadCache<D>, Meta>,
    profile: &Profile,
    stream: &mut S,
) -> (D, Result<(), Unplayed>)
    requires { holds_of pool.besides.holders ≡ empty }
    ensures { PlaysPool profile.now pool (S.calls stream.old) (S.calls stream.new) result.1 (D.state result.0) }
{
    let (hub, ended) = play_hub(alloc, Hub::new(pool), profile, stream);
    end_script(hub, ended)
}

/// Plays a script over the pool of a disk, which is handed back.
fn play_disk<D: Disk + TellsTrouble + Drop, S: Stream>(
    alloc: Global,
    disk: D,
    profile: &Profile,
    stream: &mut S,
) -> (D, Result<(), Unplayed>)
    requires { IsHandedOut (D.state disk) }
    ensures { PlaysOn profile.now (S.calls stream.old) (S.calls stream.new) result.1 (D.state disk) (D.state result.0) }
{
    match open_pool(alloc, disk) {
        Ok(pool) => play_pool(alloc, pool, profile, stream),
        Err((why, disk)) => (disk, Err(Unplayed::Refused(why))),
    }
}

/// Plays the script that a stream gives over the pool of an image, and then closes the pool. At a line that is none it stops, and the pool is not closed.
pub fn play_image<I: Images, S: Stream>(
    images: &mut I,
    alloc: Global,
    name: &str,
    profile: &Profile,
    stream: &mut S,
) -> Result<(), Unplayed>
    ensures { PlaysImage profile.now name.now (I.deeds images.old) (I.deeds images.new) (S.calls stream.old) (S.calls stream.new) result }
{
    match images.open(name) {
        Ok(disk) => {
            let (disk, played) = play_disk(alloc, disk, profile, stream);
            images.close(name, disk);
            played
        }
        Err(error) => Err(Unplayed::Refused(Failure::unopened(error))),
    }
}

/// The same over a fresh pool in memory.
pub fn play_fresh<S: Stream>(
    alloc: Global,
    profile: &Profile,
    stream: &mut S,
) -> Result<(), Unplayed>
    ensures { PlaysFirst profile.now (S.calls stream.old) (S.calls stream.new) result }
{
    match fresh_pool(alloc) {
        Ok(pool) => {
            let (_, played) = play_pool(alloc, pool, profile, stream);
            played
        }
        Err(reason) => Err(Unplayed::Refused(Failure::from(reason))),
    }
}
