//! The program that serves clients over the system's sockets: what it says of where it listens, and how a client talks to it.

use crate::parts::{NO_TERMINAL, Part, Ran, joined};
use std::alloc::Global;
use std::fs::File;
use std::io;
use std::io::{Read, Write};
use std::net::{Net, SocketAddr, TcpListener, TcpStream};
use std::rt::Files;
use std::sync::{OnceLock, Wait};
use std::thread::Threads;
use std::time::Clock;
use tp_images::FileImages;
use tp_program::program;

/// Where the program listens for clients, and for control lines where it was asked to.
pub(crate) type Addresses = (SocketAddr, Option<SocketAddr>);

/// The same, once the program says so; none where it ended before.
pub(crate) type Places = OnceLock<Option<Addresses>>;

/// What the program says, for those who wait to learn where it listens.
#[derive(Drop)]
struct Notice<'a> {
    said: Vec<u8>,
    with_control: bool,
    places: &'a Places,
}

impl<'a> Write for Notice<'a> {
    fn write(&mut self, buf: &[u8]) -> io::Result<usize> {
        self.said.extend_from_slice(buf)?;
        if let Some(addresses) = addresses_in(&self.said) {
            if addresses.1.is_some() == self.with_control {
                let _ = self.places.try_set(Some(addresses));
            }
        }
        Ok(buf.len())
    }

    fn flush(&mut self) -> io::Result<()> {
        Ok(())
    }
}

/// The addresses in the lines by which the program says where it listens.
pub(crate) fn addresses_in(said: &[u8]) -> Option<Addresses> {
    let text = std::str::from_utf8(said).ok()?;
    let text = text
        .strip_prefix("thinpool: listening on ")?
        .strip_suffix("\n")?;
    match text.split_once("\nthinpool: control on ") {
        None => Some((text.parse::<SocketAddr>().ok()?, None)),
        Some((clients, control)) => {
            let clients = clients.parse::<SocketAddr>().ok()?;
            Some((clients, Some(control.parse::<SocketAddr>().ok()?)))
        }
    }
}

/// Runs the program that serves clients, and beside them control lines where these words name an address for them.
pub(crate) fn run_server<H>(rt: &H, words: &[&str], places: &Places) -> Ran
where
    H: Files<File = File>
        + Net<Listener = TcpListener, Stream = TcpStream>
        + Threads
        + Wait
        + Clock
        + Sync
        + Alloc<A = Global>,
{
    let mut input: &[u8] = b"";
    let mut output = Vec::new(rt.alloc());
    let mut errors = Notice {
        said: Vec::new(rt.alloc()),
        with_control: words.contains(&"--control"),
        places,
    };
    let status = program(
        rt,
        &mut FileImages::new(rt),
        rt.alloc(),
        words,
        NO_TERMINAL,
        (),
        &mut input,
        &mut output,
        &mut errors,
    );
    let Notice {
        said,
        with_control: _,
        places: _,
    } = errors;
    let _ = places.try_set(None);
    Ran {
        status,
        output,
        errors: said,
    }
}

/// Sends this, and reads as many bytes as there is room for.
pub(crate) fn exchange(client: &mut TcpStream, text: &[u8], sent: &mut [u8]) -> io::Result<()> {
    client.write_all(text)?;
    client.read_exact(sent)
}

/// Whether these are the same bytes.
fn are_same(sent: &[u8], wanted: &[u8]) -> bool {
    sent == wanted
}

/// Whether a client who sends this is sent these bytes, where there is room for as many.
fn is_sent_into(
    client: &mut TcpStream,
    text: &[u8],
    wanted: &[u8],
    sent: &mut [u8],
) -> io::Result<bool> {
    exchange(client, text, sent)?;
    Ok(are_same(sent, wanted))
}

/// Whether a client who sends this is sent these bytes, where as many as they are are read.
pub(crate) fn is_sent_back(
    alloc: Global,
    client: &mut TcpStream,
    text: &[u8],
    wanted: &[u8],
) -> io::Result<bool> {
    let mut sent = Vec::from_elem(alloc, 0u8, wanted.len())?;
    is_sent_into(client, text, wanted, &mut sent)
}

/// The same of a client whose text is made of parts.
fn is_answered(
    alloc: Global,
    client: &mut TcpStream,
    text: &[Part<'_>],
    wanted: &[u8],
) -> io::Result<bool> {
    let text = joined(alloc, text)?;
    is_sent_back(alloc, client, &text, wanted)
}

/// The same where what it is sent is, too.
pub(crate) fn is_exchanged(
    alloc: Global,
    client: &mut TcpStream,
    text: &[Part<'_>],
    wanted: &[Part<'_>],
) -> io::Result<bool> {
    let wanted = joined(alloc, wanted)?;
    is_answered(alloc, client, text, &wanted)
}
