//! A test of control lines over the system's sockets: a snapshot of a volume that a client writes, and where that differs from it.

use crate::parts::{CLIENT_GO, Call, GO_REPLIES, GREETING, MADE, Part};
use crate::servers::{Places, is_exchanged, is_sent_back, run_server};
use crate::steps::{make_calls, make_last_calls};
use std::alloc::Global;
use std::fs::File;
use std::io;
use std::io::ErrorKind;
use std::net::{Net, SocketAddr, TcpListener, TcpStream};
use std::rt::Files;
use std::sync::{OnceLock, Wait};
use std::test::Fail;
use std::thread::{Threads, join};
use std::time::Clock;
use tp_program::Status;

/// Runs the program that serves two clients of an image, and beside them control lines, and tells how it ends.
fn serve<H>(rt: &H, image: &str, places: &Places) -> Status
where
    H: Files<File = File>
        + Net<Listener = TcpListener, Stream = TcpStream>
        + Threads
        + Wait
        + Clock
        + Sync
        + Alloc<A = Global>,
{
    let any = "127.0.0.1:0";
    let words = ["thinpool", "serve", image, any, "2", "--control", any];
    run_server(rt, &words, places).status
}

/// What a client sends that goes to volume 1.
const SNAPSHOT_GO: &[u8] =
    b"\x00\x00\x00\x03IHAVEOPT\x00\x00\x00\x07\x00\x00\x00\x07\x00\x00\x00\x011\x00\x00";

/// What each is sent, which has the same length for all volumes.
const GONE: &[Part<'static>] = &[Part::Text(GREETING), Part::Text(GO_REPLIES)];

/// Fills the sector of the client's volume that begins at this byte.
fn fill(alloc: Global, client: &mut TcpStream, letter: u8, at: u64) -> io::Result<bool> {
    let text = [Part::Ask(1, 7, at, 512), Part::Fill(letter, 512)];
    is_exchanged(alloc, client, &text, &[Part::Reply(0, 7)])
}

/// Whether that reads as a sector that is filled with this.
fn is_filled(alloc: Global, client: &mut TcpStream, letter: u8) -> io::Result<bool> {
    let wanted = [Part::Reply(0, 7), Part::Fill(letter, 512)];
    is_exchanged(alloc, client, &[Part::Ask(0, 7, 0, 512)], &wanted)
}

/// Has a client go to volume 0 and fill its first sector.
fn go_and_fill(alloc: Global, client: &mut TcpStream) -> io::Result<()> {
    is_exchanged(alloc, client, &[Part::Text(CLIENT_GO)], GONE)?;
    fill(alloc, client, b'a', 0)?;
    Ok(())
}

/// Whether a client that fills a sector of the snapshot behind the end of its volume reads of it what
/// that had, and then the writer of the volume what it has.
fn look_at_both(
    alloc: Global,
    reader: &mut TcpStream,
    writer: &mut TcpStream,
) -> io::Result<(bool, bool)> {
    is_exchanged(alloc, reader, &[Part::Text(SNAPSHOT_GO)], GONE)?;
    fill(alloc, reader, b'c', 1_048_576)?;
    Ok((
        is_filled(alloc, reader, b'a')?,
        is_filled(alloc, writer, b'b')?,
    ))
}

/// The same of a new client.
fn read_both<H>(rt: &H, clients: SocketAddr, writer: &mut TcpStream) -> io::Result<(bool, bool)>
where
    H: Net<Listener = TcpListener, Stream = TcpStream> + Wait + Alloc<A = Global>,
{
    let mut reader = TcpStream::connect(rt, clients)?;
    look_at_both(rt.alloc(), &mut reader, writer)
}

/// Whether lines that ask for a snapshot of twice the size are accepted.
fn is_accepted(alloc: Global, lines: &mut TcpStream) -> io::Result<bool> {
    is_sent_back(alloc, lines, b"create_snap 1 0\ngrow 1 32\n", b"ok\nok\n")
}

/// Whether a line that asks where the volume differs from the snapshot is answered by the page of its first block.
fn is_page_told(alloc: Global, lines: &mut TcpStream) -> io::Result<bool> {
    is_sent_back(alloc, lines, b"delta 1 0 0\n", b"0+65536 end\n")
}

/// Whether the line is accepted, where the volume differs is told, the snapshot reads as the volume did then, and the volume as it was filled since.
type Told = (bool, bool, (bool, bool));

/// Lines ask for a snapshot of twice the size, then the writer fills its sector again, another client
/// reads the snapshot, and another line asks where the volume differs.
fn ask_and_read<H>(
    rt: &H,
    clients: SocketAddr,
    lines: &mut TcpStream,
    writer: &mut TcpStream,
) -> io::Result<Told>
where
    H: Net<Listener = TcpListener, Stream = TcpStream> + Wait + Alloc<A = Global>,
{
    let is_accepted = is_accepted(rt.alloc(), lines)?;
    fill(rt.alloc(), writer, b'b', 0)?;
    let are_read = read_both(rt, clients, writer)?;
    Ok((is_accepted, is_page_told(rt.alloc(), lines)?, are_read))
}

/// The same behind a client that fills that sector first, by a client of control lines.
fn snapshot_beside<H>(
    rt: &H,
    addresses: (SocketAddr, SocketAddr),
    writer: &mut TcpStream,
) -> io::Result<Told>
where
    H: Net<Listener = TcpListener, Stream = TcpStream> + Wait + Alloc<A = Global>,
{
    let (clients, control) = addresses;
    go_and_fill(rt.alloc(), writer)?;
    let mut lines = TcpStream::connect(rt, control)?;
    ask_and_read(rt, clients, &mut lines, writer)
}

/// The same, and all while that client stays.
fn snapshot_in_use<H>(rt: &H, places: &Places) -> io::Result<Told>
where
    H: Net<Listener = TcpListener, Stream = TcpStream> + Wait + Alloc<A = Global>,
{
    let Some((clients, Some(control))) = places.wait(rt) else {
        return Err(io::Error::from(ErrorKind::NotConnected));
    };
    let mut writer = TcpStream::connect(rt, *clients)?;
    snapshot_beside(rt, (*clients, *control), &mut writer)
}

/// What is left: the volume with a block, and the snapshot with one more.
const LEFT: &[Call] = &[
    ("status", &["0"], 0, "128 127\n"),
    ("status", &["1"], 0, "256 2175\n"),
    ("check", &[], 0, "clean\n"),
];

/// How the program ends that serves them, and whether all is told as it should be.
fn told_of_snapshot<H>(rt: &H, image: &str) -> Result<(Status, Told), Fail>
where
    H: Files<File = File>
        + Net<Listener = TcpListener, Stream = TcpStream>
        + Threads
        + Wait
        + Clock
        + Sync
        + Alloc<A = Global>,
{
    let places = OnceLock::new();
    let (told, status) = join(
        rt,
        || snapshot_in_use(rt, &places),
        || serve(rt, image, &places),
    );
    Ok((status, told?))
}

/// The snapshot reads as the volume did at the line, and the program ends when both clients are gone.
#[test]
fn a_snapshot_while_a_client_writes(rt: HostRuntime) -> Result<(), Fail> {
    make_calls(&rt, "used.img", MADE)?;
    let told = told_of_snapshot(&rt, "used.img")?;
    make_last_calls(&rt, "used.img", LEFT)?;
    assert_eq!(rt; told, (Status::Done, (true, true, (true, true))));
    Ok(())
}
