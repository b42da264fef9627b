//! What is done with an image file, step by step, and what each step is to tell.

use crate::parts::{Call, Part, first_untold, first_untold_of_new, is_answered, words_of};
use std::alloc::Global;
use std::fs::{File, remove_file};
use std::net::{Net, TcpListener, TcpStream};
use std::process::Abort;
use std::rt::Files;
use std::sync::Wait;
use std::test::Fail;
use std::thread::Threads;
use std::time::Clock;
use tp_disk::FileDisk;

/// A step.
pub(crate) enum Step {
    /// Calls, each of which ends and prints so.
    Calls(&'static [Call]),
    /// The same while another program reads the image.
    BesideReader(&'static [Call]),
    /// The same while another program works on the image.
    BesideWriter(&'static [Call]),
    /// A call that feeds a client, what that one sends, and what it is sent.
    Fed(Call, &'static [Part<'static>], &'static [Part<'static>]),
    /// The image has so many bytes.
    Bytes(u64),
}

/// A step that has one thing to tell is wrong at its first one.
fn first_if(is_wrong: bool) -> Option<usize> {
    if is_wrong { Some(0) } else { None }
}

/// The first of these calls that does not end and print so beside another program that reads the image.
fn untold_beside_reader<H>(rt: &H, image: &str, calls: &[Call]) -> Result<Option<usize>, Fail>
where
    H: Files<File = File>
        + Net<Listener = TcpListener, Stream = TcpStream>
        + Threads
        + Wait
        + Clock
        + Sync
        + Alloc<A = Global>,
{
    let _other = FileDisk::open_to_read(rt, image)?;
    first_untold(rt, image, calls)
}

/// The same beside one that works on it.
fn untold_beside_writer<H>(rt: &H, image: &str, calls: &[Call]) -> Result<Option<usize>, Fail>
where
    H: Files<File = File>
        + Net<Listener = TcpListener, Stream = TcpStream>
        + Threads
        + Wait
        + Clock
        + Sync
        + Alloc<A = Global>,
{
    let _other = FileDisk::open(rt, image)?;
    first_untold(rt, image, calls)
}

/// Whether this is wrong of a client of the image: what it sends, and what it is sent.
fn untold_of_fed<H>(
    rt: &H,
    image: &str,
    call: &Call,
    text: &[Part<'_>],
    wanted: &[Part<'_>],
) -> Result<Option<usize>, Fail>
where
    H: Files<File = File>
        + Net<Listener = TcpListener, Stream = TcpStream>
        + Threads
        + Wait
        + Clock
        + Sync
        + Alloc<A = Global>,
{
    let words = words_of(rt.alloc(), image, call)?;
    Ok(first_if(!is_answered(rt, &words, text, wanted)?))
}

/// Whether it is wrong that a file has so many bytes.
fn untold_of_length<F: Files<File = File>>(
    files: &F,
    path: &str,
    bytes: u64,
) -> Result<Option<usize>, Fail> {
    let is_wrong = File::open(files, path)?.metadata()?.len() != bytes;
    Ok(first_if(is_wrong))
}

/// Where a step is the first time wrong.
fn first_wrong_in<H>(rt: &H, image: &str, step: &Step) -> Result<Option<usize>, Fail>
where
    H: Files<File = File>
        + Net<Listener = TcpListener, Stream = TcpStream>
        + Threads
        + Wait
        + Clock
        + Sync
        + Alloc<A = Global>,
{
    match step {
        Step::Calls(calls) => first_untold(rt, image, calls),
        Step::BesideReader(calls) => untold_beside_reader(rt, image, calls),
        Step::BesideWriter(calls) => untold_beside_writer(rt, image, calls),
        Step::Fed(call, text, wanted) => untold_of_fed(rt, image, call, text, wanted),
        Step::Bytes(bytes) => untold_of_length(rt, image, *bytes),
    }
}

/// The first wrong step of these, and where it is wrong.
fn first_wrong<H>(rt: &H, image: &str, steps: &[Step]) -> Result<Option<(usize, usize)>, Fail>
where
    H: Files<File = File>
        + Net<Listener = TcpListener, Stream = TcpStream>
        + Threads
        + Wait
        + Clock
        + Sync
        + Alloc<A = Global>,
{
    for (i, step) in steps.iter().enumerate() {
        if let Some(place) = first_wrong_in(rt, image, step)? {
            return Ok(Some((i, place)));
        }
    }
    Ok(None)
}

/// Takes these steps with an image, which is removed behind them, and asserts that none is wrong.
pub(crate) fn take_steps<H>(rt: &H, image: &str, steps: &[Step]) -> Result<(), Fail>
where
    H: Files<File = File>
        + Net<Listener = TcpListener, Stream = TcpStream>
        + Threads
        + Wait
        + Clock
        + Sync
        + Alloc<A = Global>
        + Abort,
{
    let wrong = first_wrong(rt, image, steps)?;
    remove_file(rt, image)?;
    assert_eq!(rt; wrong, None);
    Ok(())
}

/// Makes these calls on an image, which stays, and asserts that each ends and prints so.
pub(crate) fn make_calls<H>(rt: &H, image: &str, calls: &[Call]) -> Result<(), Fail>
where
    H: Files<File = File>
        + Net<Listener = TcpListener, Stream = TcpStream>
        + Threads
        + Wait
        + Clock
        + Sync
        + Alloc<A = Global>
        + Abort,
{
    let untold = first_untold(rt, image, calls)?;
    assert_eq!(rt; untold, None);
    Ok(())
}

/// The same of an image that is removed behind them.
pub(crate) fn make_last_calls<H>(rt: &H, image: &str, calls: &[Call]) -> Result<(), Fail>
where
    H: Files<File = File>
        + Net<Listener = TcpListener, Stream = TcpStream>
        + Threads
        + Wait
        + Clock
        + Sync
        + Alloc<A = Global>
        + Abort,
{
    let untold = first_untold_of_new(rt, image, calls)?;
    assert_eq!(rt; untold, None);
    Ok(())
}
