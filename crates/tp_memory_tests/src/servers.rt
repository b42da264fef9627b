//! The program that serves clients over the system's sockets, and one who comes to it. He takes no memory.

use crate::beside::has_begun;
use crate::commands::{IMAGE, MEMORY, NO_TERMINAL, is_explanation};
use crate::talk::{ANSWERED_BLANK, GO, READ};
use std::alloc::{AllocError, Global};
use std::fs::File;
use std::io;
use std::io::{Read, Write};
use std::net::{Net, Shutdown, SocketAddr, TcpListener, TcpStream};
use std::rt::Files;
use std::sync::atomic::{AtomicBool, Ordering};
use std::sync::{OnceLock, Wait};
use std::thread::Threads;
use std::time::Clock;
use tp_images::MemImages;
use tp_program::{Status, program};

/// Room for all that the program says.
const ROOM: usize = 4096;

/// So often one is tried again that may be refused memory.
const TRIES: u8 = 8;

/// An address of loopback, whose port the system picks.
pub(crate) const ANY: &str = "127.0.0.1:0";

/// Where the program listens for clients, and for control lines where it was asked to.
type Addresses = (SocketAddr, Option<SocketAddr>);

/// The same, once the program says so; none where it ended before.
pub(crate) type Places = OnceLock<Option<Addresses>>;

/// What is said before the first line with a time: those tell of clients and control lines, and may be lost for want of memory.
fn without_times(text: &str) -> &str {
    match text.split_once("thinpool: 20") {
        Some((head, _)) => head,
        None => text,
    }
}

/// The addresses in the lines by which the program says where it listens.
fn addresses_in(said: &[u8]) -> Option<Addresses> {
    let text = without_times(std::str::from_utf8(said).ok()?);
    let text = text
        .strip_prefix("thinpool: listening on ")?
        .strip_suffix("\n")?;
    match text.split_once("\nthinpool: control on ") {
        None => Some((text.parse::<SocketAddr>().ok()?, None)),
        Some((clients, control)) => {
            let clients = clients.parse::<SocketAddr>().ok()?;
            Some((clients, Some(control.parse::<SocketAddr>().ok()?)))
        }
    }
}

/// What the program says, for which there is room before, for those who wait to learn where it listens.
#[derive(Drop)]
pub(crate) struct Notice<'a> {
    said: Vec<u8>,
    with_control: bool,
    places: &'a Places,
}

impl<'a> Notice<'a> {
    pub(crate) fn new(
        alloc: Global,
        with_control: bool,
        places: &'a Places,
    ) -> Result<Notice<'a>, AllocError> {
        Ok(Notice {
            said: Vec::with_capacity(alloc, ROOM)?,
            with_control,
            places,
        })
    }

    /// Whether the program said where it listens, and nothing else without a time.
    pub(crate) fn has_addresses_alone(&self) -> bool {
        addresses_in(&self.said).is_some()
    }

    /// Whether the last that the program said is that it was refused memory, and why it needs it.
    pub(crate) fn has_memory(&self) -> bool {
        let Ok(text) = std::str::from_utf8(&self.said) else {
            return false;
        };
        match text.split_once(MEMORY) {
            Some((_, rest)) => is_explanation(rest),
            None => false,
        }
    }
}

impl<'a> Write for Notice<'a> {
    fn write(&mut self, buf: &[u8]) -> io::Result<usize> {
        self.said.extend_from_slice(buf)?;
        if let Some(addresses) = addresses_in(&self.said) {
            if addresses.1.is_some() == self.with_control {
                let _ = self.places.try_set(Some(addresses));
            }
        }
        Ok(buf.len())
    }

    fn flush(&mut self) -> io::Result<()> {
        Ok(())
    }
}

/// The words by which one client of the image is served.
pub(crate) const SERVE: &[&str] = &["thinpool", "serve", IMAGE, ANY, "1"];

/// Those by which clients are served until a control line ends it.
pub(crate) const RUN: &[&str] = &["thinpool", "run", IMAGE, "--listen", ANY, "--control", ANY];

/// Runs the program with these words, and tells who waits that it has ended. None where nobody has begun to wait, and then it is not run.
pub(crate) fn run_server<H>(
    rt: &H,
    images: &mut MemImages,
    words: &[&str],
    begun: &AtomicBool,
    notice: &mut Notice<'_>,
) -> Option<Status>
where
    H: Files<File = File>
        + Net<Listener = TcpListener, Stream = TcpStream>
        + Threads
        + Wait
        + Clock
        + Sync
        + Alloc<A = Global>,
{
    if !has_begun(rt, begun) {
        let _ = notice.places.try_set(None);
        return None;
    }
    let mut input: &[u8] = b"";
    let mut output = Vec::new(rt.alloc());
    let status = program(
        rt,
        images,
        rt.alloc(),
        words,
        NO_TERMINAL,
        (),
        &mut input,
        &mut output,
        notice,
    );
    let _ = notice.places.try_set(None);
    Some(status)
}

/// What a client came to.
#[derive(Clone, Copy, Debug, PartialEq, Eq)]
pub(crate) enum Visit {
    /// Nobody listened.
    Nobody,
    /// The connection ended, and nothing was sent.
    Untouched,
    /// All answers were sent.
    Answered,
    /// A part of them, as far as their count tells.
    Part,
    /// More than that, or sectors that nobody wrote.
    Wrong,
}

/// How many bytes come until a connection ends, and how many of them are the letter `a`.
fn heard(client: &mut TcpStream) -> (u64, u64) {
    let (mut bytes, mut letters) = (0u64, 0u64);
    let mut byte = [0];
    for _ in 0..4096 {
        match client.read(&mut byte) {
            Ok(1) => {
                bytes = bytes.saturating_add(1);
                letters = letters.saturating_add((byte == [0x61]) as u64);
            }
            _ => return (bytes, letters),
        }
    }
    (bytes, letters)
}

/// Goes to volume 0, reads a sector and ends this side.
fn talk(client: &mut TcpStream) -> Visit {
    let _ = client.write_all(GO);
    let _ = client.write_all(READ);
    let _ = client.shutdown(Shutdown::Write);
    visit_of(heard(client))
}

/// What a client came to that was sent so many bytes, so many of which are letters.
fn visit_of(heard: (u64, u64)) -> Visit {
    let (bytes, letters) = ANSWERED_BLANK;
    if heard == ANSWERED_BLANK {
        Visit::Answered
    } else if heard == (0, 0) {
        Visit::Untouched
    } else if heard.0 < bytes && heard.1 <= letters {
        Visit::Part
    } else {
        Visit::Wrong
    }
}

/// A client that does that.
fn visit_at<H>(rt: &H, address: SocketAddr) -> Visit
where
    H: Net<Listener = TcpListener, Stream = TcpStream>,
{
    match TcpStream::connect(rt, address) {
        Ok(mut client) => talk(&mut client),
        Err(_) => Visit::Nobody,
    }
}

/// The same, once the program listens.
pub(crate) fn come<H>(rt: &H, begun: &AtomicBool, places: &Places) -> Visit
where
    H: Net<Listener = TcpListener, Stream = TcpStream> + Wait,
{
    begun.store(true, Ordering::SeqCst);
    match places.wait(rt) {
        Some((address, _)) => visit_at(rt, *address),
        None => Visit::Nobody,
    }
}

/// Whether a control line that ends all is accepted.
fn is_stopped<H>(rt: &H, control: SocketAddr) -> bool
where
    H: Net<Listener = TcpListener, Stream = TcpStream>,
{
    let Ok(mut lines) = TcpStream::connect(rt, control) else {
        return false;
    };
    let mut answer = [0; 3];
    let _ = lines.write_all(b"stop now\n");
    lines.read_exact(&mut answer).is_ok() && &answer == b"ok\n"
}

/// Sends that line until it is accepted, and tells how often.
fn stop<H>(rt: &H, control: SocketAddr) -> u8
where
    H: Net<Listener = TcpListener, Stream = TcpStream>,
{
    for tries in 1..=TRIES {
        if is_stopped(rt, control) {
            return tries;
        }
    }
    0
}

/// What the first client came to, another one where that was sent nothing, and how often the control line was sent.
pub(crate) type Stay = (Visit, Visit, u8);

/// Two clients, the second one where the first was sent nothing, and then a control line that ends all.
fn stay_at<H>(rt: &H, clients: SocketAddr, control: SocketAddr) -> Stay
where
    H: Net<Listener = TcpListener, Stream = TcpStream>,
{
    let first = visit_at(rt, clients);
    let second = match first {
        Visit::Untouched => visit_at(rt, clients),
        _ => first,
    };
    (first, second, stop(rt, control))
}

/// The same, once the program listens.
pub(crate) fn come_and_stop<H>(rt: &H, begun: &AtomicBool, places: &Places) -> Stay
where
    H: Net<Listener = TcpListener, Stream = TcpStream> + Wait,
{
    begun.store(true, Ordering::SeqCst);
    match places.wait(rt) {
        Some((clients, Some(control))) => stay_at(rt, *clients, *control),
        _ => (Visit::Nobody, Visit::Nobody, 0),
    }
}
