//! Clients over a loopback address whose requests come in parts.

use crate::ahead::send_and_wait;
use crate::served::{Left, listening, served};
use crate::talk::{ANSWERED_READ, GO, LETTERS, READ, joined};
use std::alloc::{AllocError, Global};
use std::io;
use std::io::{Read, Write};
use std::net::{Net, SocketAddr, TcpListener, TcpStream};
use std::sync::Wait;
use std::test::Fail;
use std::thread::{Threads, join};
use std::time::Clock;

/// The head of a write of the first 131,072 bytes.
const LONG_WRITE: &[u8] = b"\x25\x60\x95\x13\0\0\0\x01\0\0\0\0\0\0\0\x05\0\0\0\0\0\0\0\0\0\x02\0\0";

/// The first of three parts that are sent behind it.
const FIRST: &[u8] = &[0x61; 100];

/// How many bytes the second one has.
const SECOND: usize = 130_962;

/// The last one.
const LAST: &[u8] = &[0x61; 10];

/// So many bytes of a payload.
fn letters(alloc: Global, count: usize) -> Result<Vec<u8>, AllocError> {
    Vec::from_elem(alloc, 0x61u8, count)
}

/// Sends this, and reads as many bytes as there is room for: how many.
fn exchange(client: &mut TcpStream, text: &[u8], sent: &mut [u8]) -> io::Result<usize> {
    client.write_all(text)?;
    client.read_exact(sent)?;
    Ok(sent.len())
}

/// Sends this, and reads so many bytes, whatever they are: how many.
pub(crate) fn pass_over(
    alloc: Global,
    client: &mut TcpStream,
    text: &[u8],
    count: usize,
) -> io::Result<usize> {
    let mut sent = Vec::from_elem(alloc, 0u8, count)?;
    exchange(client, text, &mut sent)
}

/// Whether these are the same bytes.
fn are_same(sent: &[u8], wanted: &[u8]) -> bool {
    sent == wanted
}

/// Whether a client who sends this is sent these bytes, where there is room for as many.
fn is_sent_into(
    client: &mut TcpStream,
    text: &[u8],
    wanted: &[u8],
    sent: &mut [u8],
) -> io::Result<bool> {
    exchange(client, text, sent)?;
    Ok(are_same(sent, wanted))
}

/// Whether a client who sends this is sent these bytes, where as many as they are are read.
pub(crate) fn is_sent_back(
    alloc: Global,
    client: &mut TcpStream,
    text: &[u8],
    wanted: &[u8],
) -> io::Result<bool> {
    let mut sent = Vec::from_elem(alloc, 0u8, wanted.len())?;
    is_sent_into(client, text, wanted, &mut sent)
}

/// GO and a read, behind them the head of a long write and the first part of its payload.
fn read_and_begin(alloc: Global) -> Result<Vec<u8>, AllocError> {
    joined(alloc, &[GO, READ, LONG_WRITE, FIRST])
}

/// What a write is answered.
const WRITTEN: &[u8] = b"\x67\x44\x66\x98\0\0\0\0\0\0\0\0\0\0\0\x05";

/// The head of what a read is answered.
const READ_HEAD: &[u8] = b"\x67\x44\x66\x98\0\0\0\0\0\0\0\0\0\0\0\x02";

/// What a read of that is answered.
fn read_answer(alloc: Global) -> Result<Vec<u8>, AllocError> {
    joined(alloc, &[READ_HEAD, LETTERS])
}

/// Waits for the answer to a read, behind which the beginning of a write was sent.
fn begin(alloc: Global, client: &mut TcpStream) -> io::Result<usize> {
    let greeted = usize::try_from(ANSWERED_READ).unwrap_or(0);
    let text = read_and_begin(alloc)?;
    pass_over(alloc, client, &text, greeted)
}

/// Whether that write is answered, behind which the beginning of another read is sent.
fn is_written(alloc: Global, client: &mut TcpStream) -> io::Result<bool> {
    let text = joined(alloc, &[LAST, READ.split_at(5).0])?;
    is_sent_back(alloc, client, &text, WRITTEN)
}

/// Whether this read is answered by what was written.
fn is_read(alloc: Global, client: &mut TcpStream) -> io::Result<bool> {
    let wanted = read_answer(alloc)?;
    is_sent_back(alloc, client, READ.split_at(5).1, &wanted)
}

/// Sends the second part.
fn go_on(alloc: Global, client: &mut TcpStream) -> io::Result<()> {
    let part = letters(alloc, SECOND)?;
    client.write_all(&part)
}

/// Whether both the write and this read are answered so.
fn are_answered(alloc: Global, client: &mut TcpStream) -> io::Result<(bool, bool)> {
    begin(alloc, client)?;
    go_on(alloc, client)?;
    let is_written = is_written(alloc, client)?;
    Ok((is_written, is_read(alloc, client)?))
}

/// The same of a new client.
fn talk_in_parts<H>(rt: &H, address: SocketAddr) -> io::Result<(bool, bool)>
where
    H: Net<Listener = TcpListener, Stream = TcpStream> + Alloc<A = Global>,
{
    let mut client = TcpStream::connect(rt, address)?;
    are_answered(rt.alloc(), &mut client)
}

/// What is told of that client, and left of those who serve it.
fn told_of_parts<H>(rt: &H) -> Result<((bool, bool), Left), Fail>
where
    H: Net<Listener = TcpListener, Stream = TcpStream>
        + Threads
        + Wait
        + Clock
        + Sync
        + Alloc<A = Global>,
{
    let (listener, address) = listening(rt)?;
    let (told, left) = join(
        rt,
        || talk_in_parts(rt, address),
        || served(rt, listener, 1),
    );
    Ok((told?, left?))
}

/// No answer waits for the rest of a request that comes behind what it answers.
#[test]
fn requests_in_parts(rt: HostRuntime) -> Result<(), Fail> {
    let told = told_of_parts(&rt)?;
    assert_eq!(rt; told, ((true, true), (1, 0, 0)));
    Ok(())
}

/// Flags, an option and a request that are none: their fixed parts are as long as those of others.
const WRONG: [&[u8]; 3] = [
    b"\0\0\0\x04",
    b"\0\0\0\x03IHAVEOPX\0\0\0\x07\0\0\0\x07",
    b"\0\0\0\x03IHAVEOPT\0\0\0\x07\0\0\0\x07\0\0\0\x010\0\0IHAVEOPT\0\0\0\x07\0\0\0\x07123456789012",
];

/// How many bytes three clients are sent that send one of these each.
fn sent_to_wrong<H>(rt: &H, address: SocketAddr) -> io::Result<(usize, usize, usize)>
where
    H: Net<Listener = TcpListener, Stream = TcpStream> + Alloc<A = Global>,
{
    Ok((
        send_and_wait(rt, address, WRONG[0], false)?,
        send_and_wait(rt, address, WRONG[1], false)?,
        send_and_wait(rt, address, WRONG[2], false)?,
    ))
}

/// The same, and what is left of those who serve them.
fn told_of_wrong<H>(rt: &H) -> Result<((usize, usize, usize), Left), Fail>
where
    H: Net<Listener = TcpListener, Stream = TcpStream>
        + Threads
        + Wait
        + Clock
        + Sync
        + Alloc<A = Global>,
{
    let (listener, address) = listening(rt)?;
    let (told, left) = join(
        rt,
        || sent_to_wrong(rt, address),
        || served(rt, listener, 3),
    );
    Ok((told?, left?))
}

/// A client that sends what is none, and waits, is let go as soon as the fixed part is there. Of three clients each is accepted.
#[test]
fn wrong_frames_are_the_end(rt: HostRuntime) -> Result<(), Fail> {
    let told = told_of_wrong(&rt)?;
    assert_eq!(rt; told, ((18, 18, 18 + 86), (3, 0, 0)));
    Ok(())
}
