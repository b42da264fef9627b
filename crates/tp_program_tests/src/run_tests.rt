//! Tests of clients without end over the system's sockets, until a control line ends them.

use crate::parts::{CLIENT_GO, Call, GO_REPLIES, GREETING, MADE, Part, Ran, STRICT};
use crate::servers::{Places, is_exchanged, is_sent_back, run_server};
use crate::steps::{Step, make_calls, make_last_calls, take_steps};
use std::alloc::Global;
use std::fs::{self, File};
use std::io::{self, ErrorKind, Read};
use std::net::{Net, SocketAddr, TcpListener, TcpStream};
use std::rt::Files;
use std::sync::{OnceLock, Wait};
use std::test::Fail;
use std::thread::{self, Threads, join};
use std::time::{Clock, Duration};
use tp_program::Status;

/// Runs the program that serves clients of an image without end, and beside them control lines, and tells how it ends.
fn serve<H>(rt: &H, image: &str, places: &Places) -> Status
where
    H: Files<File = File>
        + Net<Listener = TcpListener, Stream = TcpStream>
        + Threads
        + Wait
        + Clock
        + Sync
        + Alloc<A = Global>,
{
    let any = "127.0.0.1:0";
    let words = ["thinpool", "run", image, "--listen", any, "--control", any];
    run_server(rt, &words, places).status
}

/// Has a client go to volume 0 and fill its first sector: it flushes nothing.
fn go_and_fill(alloc: Global, client: &mut TcpStream) -> io::Result<()> {
    let greeted = [Part::Text(GREETING), Part::Text(GO_REPLIES)];
    is_exchanged(alloc, client, &[Part::Text(CLIENT_GO)], &greeted)?;
    let text = [Part::Ask(1, 7, 0, 512), Part::Fill(b'a', 512)];
    is_exchanged(alloc, client, &text, &[Part::Reply(0, 7)])?;
    Ok(())
}

/// Whether it is answered that all is to stop now.
pub(crate) fn is_stopped(alloc: Global, lines: &mut TcpStream) -> io::Result<bool> {
    is_sent_back(alloc, lines, b"stop now\n", b"ok\n")
}

/// A line stops all, and then the client reads: whether that is answered, and how many bytes the client has.
fn stop_and_read(
    alloc: Global,
    lines: &mut TcpStream,
    client: &mut TcpStream,
) -> io::Result<(bool, usize)> {
    let is_stopped = is_stopped(alloc, lines)?;
    Ok((is_stopped, client.read(&mut [0])?))
}

/// The same by a client of control lines of its own.
fn stop_beside<H>(rt: &H, control: SocketAddr, client: &mut TcpStream) -> io::Result<(bool, usize)>
where
    H: Net<Listener = TcpListener, Stream = TcpStream> + Wait + Alloc<A = Global>,
{
    let mut lines = TcpStream::connect(rt, control)?;
    stop_and_read(rt.alloc(), &mut lines, client)
}

/// The same behind a write of that client.
fn fill_and_stop<H>(
    rt: &H,
    control: SocketAddr,
    client: &mut TcpStream,
) -> io::Result<(bool, usize)>
where
    H: Net<Listener = TcpListener, Stream = TcpStream> + Wait + Alloc<A = Global>,
{
    go_and_fill(rt.alloc(), client)?;
    stop_beside(rt, control, client)
}

/// The same of a new client.
fn write_and_stop<H>(rt: &H, places: &Places) -> io::Result<(bool, usize)>
where
    H: Net<Listener = TcpListener, Stream = TcpStream> + Wait + Alloc<A = Global>,
{
    let Some((clients, Some(control))) = places.wait(rt) else {
        return Err(io::Error::from(ErrorKind::NotConnected));
    };
    let mut client = TcpStream::connect(rt, *clients)?;
    fill_and_stop(rt, *control, &mut client)
}

/// What is left: what was written is there, though nobody flushed it.
const LEFT: &[Step] = &[
    Step::Calls(&[
        ("status", &["0"], 0, "128 127\n"),
        ("check", &[], 0, "clean\n"),
    ]),
    Step::Fed(
        STRICT,
        &[Part::Text(CLIENT_GO), Part::Ask(0, 8, 0, 512)],
        &[
            Part::Text(GREETING),
            Part::Text(GO_REPLIES),
            Part::Reply(0, 8),
            Part::Fill(b'a', 512),
        ],
    ),
];

/// How the program ends, and what the client is told.
fn told_of_stop<H>(rt: &H, image: &str) -> Result<(Status, (bool, usize)), Fail>
where
    H: Files<File = File>
        + Net<Listener = TcpListener, Stream = TcpStream>
        + Threads
        + Wait
        + Clock
        + Sync
        + Alloc<A = Global>,
{
    let places = OnceLock::new();
    let (told, status) = join(
        rt,
        || write_and_stop(rt, &places),
        || serve(rt, image, &places),
    );
    Ok((status, told?))
}

/// The program ends where a line tells it to, and closes the pool, though a client is still there.
#[test]
fn a_line_stops_all(rt: HostRuntime) -> Result<(), Fail> {
    make_calls(&rt, "stopped.img", MADE)?;
    let told = told_of_stop(&rt, "stopped.img")?;
    take_steps(&rt, "stopped.img", LEFT)?;
    assert_eq!(rt; told, (Status::Done, (true, 0)));
    Ok(())
}

/// How the program ends, and how often it said that little is free, of metadata and of data.
type Low = (Status, usize, usize);

/// How that ended.
fn low_of(ran: &Ran) -> Low {
    let said = std::str::from_utf8(&ran.errors).unwrap_or("");
    let metadata = said.matches(" metadata is low: ");
    let data = said.matches(" data is low: ");
    (ran.status, metadata.count(), data.count())
}

/// Runs the program that serves a pool of which little is free.
fn serve_low<H>(rt: &H, image: &str, places: &Places) -> Low
where
    H: Files<File = File>
        + Net<Listener = TcpListener, Stream = TcpStream>
        + Threads
        + Wait
        + Clock
        + Sync
        + Alloc<A = Global>,
{
    let any = "127.0.0.1:0";
    let words = [
        "thinpool",
        "run",
        image,
        "--listen",
        any,
        "--control",
        any,
        "--low-water",
        "100",
    ];
    low_of(&run_server(rt, &words, places))
}

/// Stops it when it has looked some times at what is free.
fn stop_later<H>(rt: &H, places: &Places) -> io::Result<bool>
where
    H: Net<Listener = TcpListener, Stream = TcpStream> + Wait + Clock + Alloc<A = Global>,
{
    let Some((_, Some(control))) = places.wait(rt) else {
        return Err(io::Error::from(ErrorKind::NotConnected));
    };
    thread::sleep(rt, Duration::from_millis(3500));
    let mut lines = TcpStream::connect(rt, *control)?;
    is_stopped(rt.alloc(), &mut lines)
}

/// The same where a line stops it some time later.
fn told_of_low<H>(rt: &H, image: &str) -> Result<Low, Fail>
where
    H: Files<File = File>
        + Net<Listener = TcpListener, Stream = TcpStream>
        + Threads
        + Wait
        + Clock
        + Sync
        + Alloc<A = Global>,
{
    let places = OnceLock::new();
    let (told, low) = join(
        rt,
        || stop_later(rt, &places),
        || serve_low(rt, image, &places),
    );
    told?;
    Ok(low)
}

/// That less of a pool is free than is to be is said once, however often it is looked at.
#[test]
fn low_water_is_told_once(rt: HostRuntime) -> Result<(), Fail> {
    make_calls(&rt, "low.img", MADE)?;
    let told = told_of_low(&rt, "low.img")?;
    fs::remove_file(&rt, "low.img")?;
    assert_eq!(rt; told, (Status::Done, 1, 0));
    Ok(())
}

/// A clone of the volume 0 that a server left.
const LEFT_CLONE: &[Call] = &[("message", &["create_snap 8388608 0"], 0, "ok\n")];

/// What is left behind it: no clone, and of volume 0 nothing is written.
const NO_CLONE: &[Call] = &[
    ("status", &["8388608"], 1, "thinpool: 15 NoSuchDevice\n"),
    ("status", &["0"], 0, "0 -\n"),
    ("check", &[], 0, "clean\n"),
];

/// The client flags, and GO of a clone of the volume 0.
const CLONE_GO: &[u8] =
    b"\x00\x00\x00\x03IHAVEOPT\x00\x00\x00\x07\x00\x00\x00\x0d\x00\x00\x00\x07clone:0\x00\x00";

/// Has a client go to a clone, and fill its first sector: whether it is answered as one of the volume would be that has one connection.
fn clone_and_fill(alloc: Global, client: &mut TcpStream) -> io::Result<bool> {
    let greeted = [Part::Text(GREETING), Part::Text(GO_REPLIES)];
    let is_greeted = is_exchanged(alloc, client, &[Part::Text(CLONE_GO)], &greeted)?;
    let text = [Part::Ask(1, 7, 0, 512), Part::Fill(b'a', 512)];
    Ok(is_exchanged(alloc, client, &text, &[Part::Reply(0, 7)])? && is_greeted)
}

/// How the program ends that serves clients clones, and how often it says that it deleted one that was left.
type Cleared = (Status, usize);

/// How that ended.
fn cleared_of(ran: &Ran) -> Cleared {
    let said = std::str::from_utf8(&ran.errors).unwrap_or("");
    let cleared = said.matches(" deleted 1 clones left by a previous server\n");
    (ran.status, cleared.count())
}

/// Runs the program that serves clients clones.
fn serve_clones<H>(rt: &H, image: &str, places: &Places) -> Cleared
where
    H: Files<File = File>
        + Net<Listener = TcpListener, Stream = TcpStream>
        + Threads
        + Wait
        + Clock
        + Sync
        + Alloc<A = Global>,
{
    let any = "127.0.0.1:0";
    let words = [
        "thinpool",
        "run",
        image,
        "--listen",
        any,
        "--control",
        any,
        "--clones",
    ];
    cleared_of(&run_server(rt, &words, places))
}

/// A client has a clone, and a line stops all.
fn fill_clone_and_stop<H>(
    rt: &H,
    control: SocketAddr,
    client: &mut TcpStream,
) -> io::Result<(bool, (bool, usize))>
where
    H: Net<Listener = TcpListener, Stream = TcpStream> + Wait + Alloc<A = Global>,
{
    let is_filled = clone_and_fill(rt.alloc(), client)?;
    Ok((is_filled, stop_beside(rt, control, client)?))
}

/// The same of a new client.
fn clone_and_stop<H>(rt: &H, places: &Places) -> io::Result<(bool, (bool, usize))>
where
    H: Net<Listener = TcpListener, Stream = TcpStream> + Wait + Alloc<A = Global>,
{
    let Some((clients, Some(control))) = places.wait(rt) else {
        return Err(io::Error::from(ErrorKind::NotConnected));
    };
    let mut client = TcpStream::connect(rt, *clients)?;
    fill_clone_and_stop(rt, *control, &mut client)
}

/// How the program ends, and what the client is told.
fn told_of_clones<H>(rt: &H, image: &str) -> Result<(Cleared, (bool, (bool, usize))), Fail>
where
    H: Files<File = File>
        + Net<Listener = TcpListener, Stream = TcpStream>
        + Threads
        + Wait
        + Clock
        + Sync
        + Alloc<A = Global>,
{
    let places = OnceLock::new();
    let (told, cleared) = join(
        rt,
        || clone_and_stop(rt, &places),
        || serve_clones(rt, image, &places),
    );
    Ok((cleared, told?))
}

/// A clone that a server left is deleted at the start, and that of a client goes with it.
#[test]
fn clones_go_with_their_clients(rt: HostRuntime) -> Result<(), Fail> {
    make_calls(&rt, "clones.img", MADE)?;
    make_calls(&rt, "clones.img", LEFT_CLONE)?;
    let told = told_of_clones(&rt, "clones.img")?;
    make_last_calls(&rt, "clones.img", NO_CLONE)?;
    assert_eq!(rt; told, ((Status::Done, 1), (true, (true, 0))));
    Ok(())
}
