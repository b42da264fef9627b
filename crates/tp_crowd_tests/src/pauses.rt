//! Clients over a loopback address that let the server wait.

use crate::parts::pass_over;
use crate::served::{Left, listening, served};
use crate::talk::{GO, READ};
use std::alloc::{AllocError, Global};
use std::net::{Net, SocketAddr, TcpListener, TcpStream};
use std::sync::Wait;
use std::test::Fail;
use std::thread::{Threads, join};
use std::time::{Clock, Duration};
use std::{io, thread};

/// A read of the whole volume, which has a mebibyte.
const LONG_READ: &[u8] = b"\x25\x60\x95\x13\0\0\0\0\0\0\0\0\0\0\0\x06\0\0\0\0\0\0\0\0\0\x10\0\0";

/// So many of them are sent at once: their answers do not fit into what the system keeps for a stream.
const LONG_READS: usize = 24;

/// How many bytes the greeting and GO are answered by, and such reads.
const ANSWERED: usize = 18 + 86 + LONG_READS * (16 + 1_048_576);

/// GO, and all these reads.
fn long_reads(alloc: Global) -> Result<Vec<u8>, AllocError> {
    let mut text = Vec::from_slice(alloc, GO)?;
    for _ in 0..LONG_READS {
        text.extend_from_slice(LONG_READ)?;
    }
    Ok(text)
}

/// Sends this, waits for so many milliseconds, and reads so many bytes.
fn exchange_late<H>(
    rt: &H,
    client: &mut TcpStream,
    text: &[u8],
    pause: u64,
    count: usize,
) -> io::Result<usize>
where
    H: Alloc<A = Global> + Clock,
{
    pass_over(rt.alloc(), client, text, 0)?;
    thread::sleep(rt, Duration::from_millis(pause));
    pass_over(rt.alloc(), client, &[], count)
}

/// A client that sends this and reads the answers to it late, and then waits before each of five reads more.
fn exchange_with_pauses<H>(rt: &H, client: &mut TcpStream, text: &[u8]) -> io::Result<usize>
where
    H: Alloc<A = Global> + Clock,
{
    let mut sent = exchange_late(rt, client, text, 100, ANSWERED)?;
    for _ in 0..5 {
        thread::sleep(rt, Duration::from_millis(5));
        sent = sent.saturating_add(exchange_late(rt, client, READ, 0, 528)?);
    }
    Ok(sent)
}

/// The same of a new client.
fn talk_so<H>(rt: &H, address: SocketAddr, text: &[u8]) -> io::Result<usize>
where
    H: Net<Listener = TcpListener, Stream = TcpStream> + Alloc<A = Global> + Clock,
{
    let mut client = TcpStream::connect(rt, address)?;
    exchange_with_pauses(rt, &mut client, text)
}

/// The same of one that sends those reads.
fn talk_with_pauses<H>(rt: &H, address: SocketAddr) -> io::Result<usize>
where
    H: Net<Listener = TcpListener, Stream = TcpStream> + Alloc<A = Global> + Clock,
{
    let text = long_reads(rt.alloc())?;
    talk_so(rt, address, &text)
}

/// How many bytes that client is sent, and what is left of those who serve it.
fn told_of_pauses<H>(rt: &H) -> Result<(usize, Left), Fail>
where
    H: Net<Listener = TcpListener, Stream = TcpStream>
        + Threads
        + Wait
        + Clock
        + Sync
        + Alloc<A = Global>,
{
    let (listener, address) = listening(rt)?;
    let (told, left) = join(
        rt,
        || talk_with_pauses(rt, address),
        || served(rt, listener, 1),
    );
    Ok((told?, left?))
}

/// A client that waits, before it reads or before it asks, loses nothing by it.
#[test]
fn a_client_that_waits(rt: HostRuntime) -> Result<(), Fail> {
    let told = told_of_pauses(&rt)?;
    assert_eq!(rt; told, (ANSWERED + 5 * 528, (1, 0, 0)));
    Ok(())
}
