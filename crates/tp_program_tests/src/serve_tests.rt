//! Tests of clients over the system's sockets and of a pipe. Each test has a file of its own, for they run side by side.

use crate::parts::{
    CLEAN, CLIENT_GO, Call, FAULT, GO_REPLIES, GREETING, MADE, Part, Ran, STRICT, add, greeted,
    joined, told_of_unread,
};
use crate::servers::{Places, addresses_in, exchange, is_exchanged, run_server};
use crate::steps::{Step, make_calls, make_last_calls, take_steps};
use std::alloc::{AllocError, Global};
use std::fs::File;
use std::io;
use std::io::{ErrorKind, Read, Write};
use std::net::{Net, Shutdown, TcpListener, TcpStream};
use std::process::Abort;
use std::rt::Files;
use std::sync::{OnceLock, Wait};
use std::test::Fail;
use std::thread::{Threads, join};
use std::time::Clock;
use tp_program::Status;

/// Runs the program that serves so many clients of an image.
fn serve<H>(rt: &H, image: &str, address: &str, count: &str, places: &Places) -> Ran
where
    H: Files<File = File>
        + Net<Listener = TcpListener, Stream = TcpStream>
        + Threads
        + Wait
        + Clock
        + Sync
        + Alloc<A = Global>,
{
    run_server(rt, &["thinpool", "serve", image, address, count], places)
}

/// Whether the program served all that it was to, and said nothing but where it listened.
fn is_served(ran: &Ran) -> bool {
    ran.status == Status::Done && ran.output.is_empty() && addresses_in(&ran.errors).is_some()
}

/// Whether the program does that that is to serve so many clients of an image.
fn is_done_with<H>(rt: &H, image: &str, address: &str, count: &str, places: &Places) -> bool
where
    H: Files<File = File>
        + Net<Listener = TcpListener, Stream = TcpStream>
        + Threads
        + Wait
        + Clock
        + Sync
        + Alloc<A = Global>,
{
    is_served(&serve(rt, image, address, count, places))
}

/// Connects to the program, once it listens.
fn connect<H>(rt: &H, places: &Places) -> io::Result<TcpStream>
where
    H: Net<Listener = TcpListener, Stream = TcpStream> + Wait,
{
    match places.wait(rt) {
        Some((address, _)) => TcpStream::connect(rt, *address),
        None => Err(io::Error::from(ErrorKind::NotConnected)),
    }
}

/// Sends all this, ends this side, and reads what is sent: how many bytes.
fn talk(client: &mut TcpStream, text: &[u8], sent: &mut Vec<u8>) -> io::Result<usize> {
    client.write_all(text)?;
    client.shutdown(Shutdown::Write)?;
    client.read_to_end(sent)
}

/// A client that does that.
fn converse<H>(rt: &H, places: &Places, text: &[u8], sent: &mut Vec<u8>) -> io::Result<usize>
where
    H: Net<Listener = TcpListener, Stream = TcpStream> + Wait,
{
    let mut client = connect(rt, places)?;
    talk(&mut client, text, sent)
}

/// Whether a client that sends this so is sent these parts.
fn is_sent<H>(rt: &H, places: &Places, text: &[u8], wanted: &[Part<'_>]) -> io::Result<bool>
where
    H: Net<Listener = TcpListener, Stream = TcpStream> + Wait + Alloc<A = Global>,
{
    let mut sent = Vec::new(rt.alloc());
    converse(rt, places, text, &mut sent)?;
    are_parts(rt.alloc(), &sent, wanted)
}

/// Whether these bytes are these parts.
fn are_parts(alloc: Global, sent: &[u8], wanted: &[Part<'_>]) -> io::Result<bool> {
    Ok(joined(alloc, wanted)?.as_slice() == sent)
}

/// The same of a client whose text is made of parts.
fn is_answered<H>(
    rt: &H,
    places: &Places,
    text: &[Part<'_>],
    wanted: &[Part<'_>],
) -> io::Result<bool>
where
    H: Net<Listener = TcpListener, Stream = TcpStream> + Wait + Alloc<A = Global>,
{
    let text = joined(rt.alloc(), text)?;
    is_sent(rt, places, &text, wanted)
}

/// What is told of a pool where the first block of the volume was written.
const WRITTEN: &[Call] = &[
    (
        "status",
        &[],
        0,
        "0 10/2048 1/4 - rw no_discard_passdown error_if_no_space - 512\n",
    ),
    ("status", &["0"], 0, "128 127\n"),
    ("check", &[], 0, "clean\n"),
];

/// A client that goes to volume 0, and fills and reads its first sector.
const FILLING: &[Part<'static>] = &[
    Part::Text(CLIENT_GO),
    Part::Ask(1, 1, 0, 512),
    Part::Fill(0x61, 512),
    Part::Ask(0, 2, 0, 512),
];

/// What that client is sent.
const FILLED: &[Part<'static>] = &[
    Part::Text(GREETING),
    Part::Text(GO_REPLIES),
    Part::Reply(0, 1),
    Part::Reply(0, 2),
    Part::Fill(0x61, 512),
];

/// The same client with a flush, and at last a goodbye, which is not answered.
const WHOLE: &[Part<'static>] = &[
    Part::Text(CLIENT_GO),
    Part::Ask(1, 1, 0, 512),
    Part::Fill(0x61, 512),
    Part::Ask(0, 2, 0, 512),
    Part::Ask(3, 3, 0, 0),
    Part::Ask(2, 4, 0, 0),
];

/// What that client is sent.
const WHOLE_ANSWERS: &[Part<'static>] = &[
    Part::Text(GREETING),
    Part::Text(GO_REPLIES),
    Part::Reply(0, 1),
    Part::Reply(0, 2),
    Part::Fill(0x61, 512),
    Part::Reply(0, 3),
];

/// A client that reads the same, and goes.
const READING: &[Part<'static>] = &[Part::Text(CLIENT_GO), Part::Ask(0, 2, 0, 512)];

/// What that client is sent.
const READ: &[Part<'static>] = &[
    Part::Text(GREETING),
    Part::Text(GO_REPLIES),
    Part::Reply(0, 2),
    Part::Fill(0x61, 512),
];

/// Whether each of two clients is sent its answers: the second one comes when what the first one fills and reads was answered.
fn are_answered<H>(rt: &H, places: &Places, first: &mut TcpStream) -> io::Result<(bool, bool)>
where
    H: Net<Listener = TcpListener, Stream = TcpStream> + Wait + Alloc<A = Global>,
{
    let is_first = is_exchanged(rt.alloc(), first, FILLING, FILLED)?;
    Ok((is_first, is_answered(rt, places, READING, READ)?))
}

/// The same where the first one goes last.
fn one_behind_the_other<H>(rt: &H, places: &Places) -> io::Result<(bool, bool)>
where
    H: Net<Listener = TcpListener, Stream = TcpStream> + Wait + Alloc<A = Global>,
{
    let mut first = connect(rt, places)?;
    are_answered(rt, places, &mut first)
}

/// Whether the program that serves two clients is done with them, and each was sent its answers.
fn told_of_two<H>(rt: &H, image: &str) -> Result<(bool, (bool, bool)), Fail>
where
    H: Files<File = File>
        + Net<Listener = TcpListener, Stream = TcpStream>
        + Threads
        + Wait
        + Clock
        + Sync
        + Alloc<A = Global>,
{
    let places = OnceLock::new();
    let (are_answered, is_done) = join(
        rt,
        || one_behind_the_other(rt, &places),
        || is_done_with(rt, image, "127.0.0.1:0", "2", &places),
    );
    Ok((is_done, are_answered?))
}

/// The image that is left has the data that a client wrote.
const READ_LATER: &[Step] = &[Step::Calls(WRITTEN), Step::Fed(STRICT, READING, READ)];

/// Each of two clients is sent its answers, and the closed image has what one of them wrote.
#[test]
fn two_clients_at_once(rt: HostRuntime) -> Result<(), Fail> {
    make_calls(&rt, "later.img", MADE)?;
    let told = told_of_two(&rt, "later.img")?;
    take_steps(&rt, "later.img", READ_LATER)?;
    assert_eq!(rt; told, (true, (true, true)));
    Ok(())
}

/// More bytes in answers than the system holds for a client that does not read them.
const LONG_READS: u64 = 32;

/// The text of a client that asks for 32 MiB.
fn long_reads(alloc: Global) -> Result<Vec<u8>, AllocError> {
    let mut text = Vec::from_slice(alloc, CLIENT_GO)?;
    for cookie in 0..LONG_READS {
        add(&mut text, Part::Ask(0, cookie, 0, 1_048_576))?;
    }
    Ok(text)
}

/// How many bytes a client is sent up to a place within the first answer.
fn into_the_first_answer(alloc: Global) -> Result<usize, AllocError> {
    Ok(greeted(alloc)?.len() + 512)
}

/// Sends this, and reads the beginning of the first answer.
fn begin_by(alloc: Global, client: &mut TcpStream, text: &[u8]) -> io::Result<()> {
    let begun = into_the_first_answer(alloc)?;
    let mut sent = Vec::from_elem(alloc, 0u8, begun)?;
    exchange(client, text, &mut sent)
}

/// Asks for 32 MiB, and reads that.
fn begin(alloc: Global, client: &mut TcpStream) -> io::Result<()> {
    let text = long_reads(alloc)?;
    begin_by(alloc, client, &text)
}

/// A client that does that and goes, so that the connection breaks off.
fn begin_and_go<H>(rt: &H, places: &Places) -> io::Result<()>
where
    H: Net<Listener = TcpListener, Stream = TcpStream> + Wait + Alloc<A = Global>,
{
    let mut first = connect(rt, places)?;
    begin(rt.alloc(), &mut first)
}

/// Whether a client with a whole session is sent its answers, and comes behind such a one where that is wanted.
fn is_whole<H>(rt: &H, places: &Places, is_behind: bool) -> io::Result<bool>
where
    H: Net<Listener = TcpListener, Stream = TcpStream> + Wait + Alloc<A = Global>,
{
    if is_behind {
        begin_and_go(rt, places)?;
    }
    is_answered(rt, places, WHOLE, WHOLE_ANSWERS)
}

/// Whether the program that serves them at an address is done with them, and that.
fn told_of_session<H>(
    rt: &H,
    image: &str,
    address: &str,
    is_behind: bool,
) -> Result<(bool, bool), Fail>
where
    H: Files<File = File>
        + Net<Listener = TcpListener, Stream = TcpStream>
        + Threads
        + Wait
        + Clock
        + Sync
        + Alloc<A = Global>,
{
    let count = if is_behind { "2" } else { "1" };
    let places = OnceLock::new();
    let (is_whole, is_done) = join(
        rt,
        || is_whole(rt, &places, is_behind),
        || is_done_with(rt, image, address, count, &places),
    );
    Ok((is_done, is_whole?))
}

/// Has them served on a new image, and asserts that all is so, and what is left.
fn serve_session<H>(rt: &H, image: &str, address: &str, is_behind: bool) -> Result<(), Fail>
where
    H: Files<File = File>
        + Net<Listener = TcpListener, Stream = TcpStream>
        + Threads
        + Wait
        + Clock
        + Sync
        + Alloc<A = Global>
        + Abort,
{
    make_calls(rt, image, MADE)?;
    let told = told_of_session(rt, image, address, is_behind)?;
    assert_eq!(rt; told, (true, true));
    take_steps(rt, image, READ_LATER)
}

#[test]
fn a_session_over_loopback(rt: HostRuntime) -> Result<(), Fail> {
    serve_session(&rt, "loopback.img", "127.0.0.1:0", false)
}

/// Where the machine has no address of that kind, there is nothing to be tried.
#[test]
fn a_session_over_the_newer_loopback(rt: HostRuntime) -> Result<(), Fail> {
    if TcpListener::bind(&rt, "[::1]:0").is_err() {
        return Ok(());
    }
    serve_session(&rt, "newer.img", "[::1]:0", false)
}

#[test]
fn a_client_that_breaks_off_in_an_answer(rt: HostRuntime) -> Result<(), Fail> {
    serve_session(&rt, "broken.img", "127.0.0.1:0", true)
}

/// The words of the address at which another one listens.
fn address_of(alloc: Global, other: &TcpListener) -> Result<String, Fail> {
    Ok(format!(in alloc; "{}", other.local_addr()?)?)
}

/// How the program ends at an address at which another one listens, and whether it says why.
fn told_at<H>(rt: &H, image: &str, other: &TcpListener) -> Result<(Status, bool), Fail>
where
    H: Files<File = File>
        + Net<Listener = TcpListener, Stream = TcpStream>
        + Threads
        + Wait
        + Clock
        + Sync
        + Alloc<A = Global>,
{
    let address = address_of(rt.alloc(), other)?;
    let ran = serve(rt, image, address.as_str(), "1", &OnceLock::new());
    Ok((ran.status, ran.errors.as_slice() == FAULT))
}

fn told_of_taken<H>(rt: &H, image: &str) -> Result<(Status, bool), Fail>
where
    H: Files<File = File>
        + Net<Listener = TcpListener, Stream = TcpStream>
        + Threads
        + Wait
        + Clock
        + Sync
        + Alloc<A = Global>,
{
    let other = TcpListener::bind(rt, "127.0.0.1:0")?;
    told_at(rt, image, &other)
}

/// The image is let go as it was.
#[test]
fn an_address_that_is_taken(rt: HostRuntime) -> Result<(), Fail> {
    make_calls(&rt, "taken.img", MADE)?;
    let told = told_of_taken(&rt, "taken.img")?;
    make_last_calls(&rt, "taken.img", CLEAN)?;
    assert_eq!(rt; told, (Status::Refused, true));
    Ok(())
}

/// Nobody reads what is fed.
#[test]
fn a_closed_pipe(rt: HostRuntime) -> Result<(), Fail> {
    let told = told_of_unread(&rt, &["thinpool", "feed", "mem:"], CLIENT_GO)?;
    assert_eq!(rt; told, (Status::Refused, true));
    Ok(())
}
