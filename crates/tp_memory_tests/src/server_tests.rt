//! The commands that serve clients, over an image in memory.

use crate::commands::{CREATE, FORMAT, before_in, behind, is_done};
use crate::disks::Before;
use crate::outcome::Outcome;
use crate::servers::{Notice, Places, RUN, SERVE, Stay, Visit, come, come_and_stop, run_server};
use std::alloc::Global;
use std::fs::File;
use std::net::{Net, TcpListener, TcpStream};
use std::rt::Files;
use std::sync::atomic::AtomicBool;
use std::sync::{OnceLock, Wait};
use std::thread::{Threads, join};
use std::time::Clock;
use tp_images::MemImages;
use tp_program::Status;

/// How serving ended: that all was done, that it was refused memory, or neither.
#[derive(Clone, Copy, Debug, PartialEq, Eq)]
enum Ending {
    Done,
    Memory,
    Other,
}

fn ended(status: Status, notice: &Notice<'_>) -> Ending {
    match status {
        Status::Done if notice.has_addresses_alone() => Ending::Done,
        Status::Refused if notice.has_memory() => Ending::Memory,
        _ => Ending::Other,
    }
}

/// Serves one client, and that client beside it.
fn serve_beside<H>(
    rt: &H,
    images: &mut MemImages,
    begun: &AtomicBool,
    places: &Places,
    notice: &mut Notice<'_>,
) -> (Visit, Option<Status>)
where
    H: Files<File = File>
        + Net<Listener = TcpListener, Stream = TcpStream>
        + Threads
        + Wait
        + Clock
        + Sync
        + Alloc<A = Global>,
{
    join(
        rt,
        || come(rt, begun, places),
        || run_server(rt, images, SERVE, begun, notice),
    )
}

/// The same, and how it ended. None where there is no thread.
fn served_at<H>(
    rt: &H,
    images: &mut MemImages,
    places: &Places,
    notice: &mut Notice<'_>,
) -> Option<(Ending, Visit)>
where
    H: Files<File = File>
        + Net<Listener = TcpListener, Stream = TcpStream>
        + Threads
        + Wait
        + Clock
        + Sync
        + Alloc<A = Global>,
{
    let begun = AtomicBool::new(false);
    let (visit, status) = serve_beside(rt, images, &begun, places, notice);
    Some((ended(status?, notice), visit))
}

/// The same. None also where there is no room for what is said.
fn served<H>(rt: &H, images: &mut MemImages) -> Option<(Ending, Visit)>
where
    H: Files<File = File>
        + Net<Listener = TcpListener, Stream = TcpStream>
        + Threads
        + Wait
        + Clock
        + Sync
        + Alloc<A = Global>,
{
    let places: Places = OnceLock::new();
    match Notice::new(rt.alloc(), false, &places) {
        Ok(mut notice) => served_at(rt, images, &places, &mut notice),
        Err(_) => None,
    }
}

/// What serving one client came to.
fn outcome_of_serve<H>(rt: &H, images: &mut MemImages, before: &Before) -> Outcome
where
    H: Files<File = File>
        + Net<Listener = TcpListener, Stream = TcpStream>
        + Threads
        + Wait
        + Clock
        + Sync
        + Alloc<A = Global>,
{
    let Some(told) = served(rt, images) else {
        return Outcome::Before;
    };
    let (is_kept, _) = behind(images, before);
    match told {
        (Ending::Done, Visit::Answered) => Outcome::done(is_kept),
        (Ending::Memory, Visit::Nobody | Visit::Untouched) => {
            let again = served(rt, images);
            Outcome::refused(is_kept, again == Some((Ending::Done, Visit::Answered)))
        }
        _ => Outcome::Wrong,
    }
}

/// Serves without end, and beside it two clients, and a control line that ends it.
fn run_beside<H>(
    rt: &H,
    images: &mut MemImages,
    begun: &AtomicBool,
    places: &Places,
    notice: &mut Notice<'_>,
) -> (Stay, Option<Status>)
where
    H: Files<File = File>
        + Net<Listener = TcpListener, Stream = TcpStream>
        + Threads
        + Wait
        + Clock
        + Sync
        + Alloc<A = Global>,
{
    join(
        rt,
        || come_and_stop(rt, begun, places),
        || run_server(rt, images, RUN, begun, notice),
    )
}

/// The same, and how it ended. None where there is no thread.
fn stayed_at<H>(
    rt: &H,
    images: &mut MemImages,
    places: &Places,
    notice: &mut Notice<'_>,
) -> Option<(Ending, Stay)>
where
    H: Files<File = File>
        + Net<Listener = TcpListener, Stream = TcpStream>
        + Threads
        + Wait
        + Clock
        + Sync
        + Alloc<A = Global>,
{
    let begun = AtomicBool::new(false);
    let (stay, status) = run_beside(rt, images, &begun, places, notice);
    Some((ended(status?, notice), stay))
}

/// The same. None also where there is no room for what is said.
fn stayed<H>(rt: &H, images: &mut MemImages) -> Option<(Ending, Stay)>
where
    H: Files<File = File>
        + Net<Listener = TcpListener, Stream = TcpStream>
        + Threads
        + Wait
        + Clock
        + Sync
        + Alloc<A = Global>,
{
    let places: Places = OnceLock::new();
    match Notice::new(rt.alloc(), true, &places) {
        Ok(mut notice) => stayed_at(rt, images, &places, &mut notice),
        Err(_) => None,
    }
}

/// That the first client has all its answers, and the first control line ends all.
const ALL_WELL: (Ending, Stay) = (Ending::Done, (Visit::Answered, Visit::Answered, 1));

/// What serving without end came to. Who is refused memory there is turned away, and the next one is served.
fn outcome_of_run<H>(rt: &H, images: &mut MemImages, before: &Before) -> Outcome
where
    H: Files<File = File>
        + Net<Listener = TcpListener, Stream = TcpStream>
        + Threads
        + Wait
        + Clock
        + Sync
        + Alloc<A = Global>,
{
    let Some(told) = stayed(rt, images) else {
        return Outcome::Before;
    };
    let (is_kept, _) = behind(images, before);
    if told == ALL_WELL {
        return Outcome::done(is_kept);
    }
    match told {
        (Ending::Done, (Visit::Untouched, Visit::Answered, 1)) => Outcome::refused(is_kept, true),
        (Ending::Done, (Visit::Answered, _, 2)) => Outcome::refused(is_kept, true),
        (_, (Visit::Wrong, _, _)) => Outcome::Wrong,
        // It listens before it has all its threads, so its end may cut a client's answers.
        (Ending::Memory, _) => Outcome::refused(is_kept, stayed(rt, images) == Some(ALL_WELL)),
        _ => Outcome::Wrong,
    }
}

/// Makes an image with an empty volume, and tells what it has. None where memory was refused.
fn made<H>(rt: &H, images: &mut MemImages) -> Option<Before>
where
    H: Files<File = File>
        + Net<Listener = TcpListener, Stream = TcpStream>
        + Threads
        + Wait
        + Clock
        + Sync
        + Alloc<A = Global>,
{
    if is_done(rt, images, &FORMAT) && is_done(rt, images, &CREATE) {
        before_in(rt.alloc(), images)
    } else {
        None
    }
}

/// What the command `serve` comes to over such an image.
fn outcome_of_serve_behind<H>(rt: &H) -> Outcome
where
    H: Files<File = File>
        + Net<Listener = TcpListener, Stream = TcpStream>
        + Threads
        + Wait
        + Clock
        + Sync
        + Alloc<A = Global>,
{
    let mut images = MemImages::new(rt.alloc());
    match made(rt, &mut images) {
        Some(before) => outcome_of_serve(rt, &mut images, &before),
        None => Outcome::Before,
    }
}

#[test]
fn command_serve(rt: HostRuntime) {
    let outcome = match outcome_of_serve_behind(&rt) {
        Outcome::Before => Outcome::before(outcome_of_serve_behind(&rt)),
        outcome => outcome,
    };
    assert!(rt; outcome.is_right(&mut rt.stdout()));
}

/// What the command `run` comes to over such an image.
fn outcome_of_run_behind<H>(rt: &H) -> Outcome
where
    H: Files<File = File>
        + Net<Listener = TcpListener, Stream = TcpStream>
        + Threads
        + Wait
        + Clock
        + Sync
        + Alloc<A = Global>,
{
    let mut images = MemImages::new(rt.alloc());
    match made(rt, &mut images) {
        Some(before) => outcome_of_run(rt, &mut images, &before),
        None => Outcome::Before,
    }
}

#[test]
fn command_run(rt: HostRuntime) {
    let outcome = match outcome_of_run_behind(&rt) {
        Outcome::Before => Outcome::before(outcome_of_run_behind(&rt)),
        outcome => outcome,
    };
    assert!(rt; outcome.is_right(&mut rt.stdout()));
}
