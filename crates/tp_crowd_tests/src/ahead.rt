//! Sockets of which another thread reads while long WRITEs are asked.

use crate::served::listening;
use crate::talk::READ;
use std::alloc::{AllocError, Global};
use std::io::{Read, Write};
use std::net::{Net, Shutdown, SocketAddr, TcpListener, TcpStream};
use std::test::Fail;
use std::thread::{Threads, join};
use std::time::Clock;
use std::{io, thread};
use tp_crowd::{Crew, Socket};
use tp_hub::{Received, Stream};

/// The client flags.
const FLAGS: &[u8] = b"\0\0\0\x03";

/// The head of a write of 524,288 bytes.
const HEAD: &[u8] = b"\x25\x60\x95\x13\0\0\0\x01\0\0\0\0\0\0\0\x05\0\0\0\0\0\0\0\0\0\x08\0\0";

/// A read is long enough for such a write.
const ROOM: usize = 1_048_604;

/// Adds the flags, a long write of each of these letters, and this behind them.
fn add_long_writes(text: &mut Vec<u8>, letters: &[u8], behind: &[u8]) -> Result<(), AllocError> {
    text.extend_from_slice(FLAGS)?;
    for letter in letters {
        text.extend_from_slice(HEAD)?;
        let len = text.len().saturating_add(524_288);
        text.resize(len, *letter)?;
    }
    text.extend_from_slice(behind)
}

/// All that.
fn long_writes(alloc: Global, letters: &[u8], behind: &[u8]) -> Result<Vec<u8>, AllocError> {
    let mut text = Vec::new(alloc);
    add_long_writes(&mut text, letters, behind)?;
    Ok(text)
}

/// Sends this, and nothing behind it where it ends there, and reads until the other side closes.
fn send_until_closed(
    alloc: Global,
    client: &mut TcpStream,
    text: &[u8],
    ends_there: bool,
) -> io::Result<usize> {
    client.write_all(text)?;
    if ends_there {
        client.shutdown(Shutdown::Write)?;
    }
    let mut sent = Vec::new(alloc);
    client.read_to_end(&mut sent)
}

/// A client that does that: how many bytes it is sent.
pub(crate) fn send_and_wait<H>(
    rt: &H,
    address: SocketAddr,
    text: &[u8],
    ends_there: bool,
) -> io::Result<usize>
where
    H: Net<Listener = TcpListener, Stream = TcpStream> + Alloc<A = Global>,
{
    let mut client = TcpStream::connect(rt, address)?;
    send_until_closed(rt.alloc(), &mut client, text, ends_there)
}

/// Reads by way of a buffer until so many bytes came, or a read brings none, and adds them: how
/// many reads brought some.
fn add_until<R: Threads>(
    socket: &mut Socket<'_, R>,
    buffer: &mut Vec<u8>,
    read: &mut Vec<u8>,
    count: usize,
) -> Result<u64, AllocError> {
    let mut reads = 0u64;
    for _ in 0..1u32 << 20 {
        if buffer.is_empty() || read.len() >= count {
            break;
        }
        match socket.receive(buffer) {
            Received::Got(len) => {
                read.extend_from_slice(&buffer[..len])?;
                reads = reads.saturating_add(1);
            }
            Received::NotNow => {}
            Received::End | Received::Broken => break,
        }
    }
    Ok(reads)
}

/// The same by way of a new buffer.
fn add_by_new_buffer<R: Threads>(
    alloc: Global,
    socket: &mut Socket<'_, R>,
    read: &mut Vec<u8>,
    count: usize,
) -> Result<u64, AllocError> {
    let mut buffer = Vec::from_elem(alloc, 0u8, ROOM)?;
    add_until(socket, &mut buffer, read, count)
}

/// The same, and tells them too.
fn read_until<R: Threads>(
    alloc: Global,
    socket: &mut Socket<'_, R>,
    count: usize,
) -> Result<(Vec<u8>, u64), AllocError> {
    let mut read = Vec::new(alloc);
    let reads = add_by_new_buffer(alloc, socket, &mut read, count)?;
    Ok((read, reads))
}

/// Accepts a client, reads until so many bytes came, and closes its socket: they, and how many reads
/// brought them.
fn accept_and_read<R: Threads + Clock>(
    rt: &R,
    alloc: Global,
    listener: &TcpListener,
    count: usize,
) -> io::Result<(Vec<u8>, u64)> {
    let (stream, _) = listener.accept()?;
    let crew = Crew::new(4);
    let mut socket = Socket::new(rt, alloc, &crew, stream);
    let read = read_until(alloc, &mut socket, count);
    socket.close();
    Ok(read?)
}

/// Whether a stream comes to the write of the letter `c` though nobody reads it by this handle. It
/// looks at most 2^20 times.
fn comes_to_third(stream: &TcpStream) -> bool {
    let mut front = [0; 29];
    for _ in 0..1u32 << 20 {
        if matches!(stream.peek(&mut front), Ok(29)) && front[28] == b'c' {
            return true;
        }
        thread::yield_now();
    }
    false
}

/// Reads until so many bytes came, and tells whether the write that follows them is read without
/// being asked for, and then given behind them, and the third one whole.
fn is_given_in_order<R: Threads>(
    alloc: Global,
    socket: &mut Socket<'_, R>,
    other: &TcpStream,
    read: &mut Vec<u8>,
    text: &[u8],
    count: usize,
) -> Result<bool, AllocError> {
    add_by_new_buffer(alloc, socket, read, count)?;
    let is_first = read.len() == count;
    let is_read_ahead = comes_to_third(other);
    let reads = add_by_new_buffer(alloc, socket, read, usize::MAX)?;
    Ok(is_first && is_read_ahead && reads == 2 && read.as_slice() == text)
}

/// The same of what nothing was read of.
fn look<R: Threads>(
    alloc: Global,
    socket: &mut Socket<'_, R>,
    other: &TcpStream,
    text: &[u8],
    count: usize,
) -> Result<bool, AllocError> {
    let mut read = Vec::new(alloc);
    is_given_in_order(alloc, socket, other, &mut read, text, count)
}

/// Accepts a client, and tells that.
fn accept_and_look<R: Threads + Clock>(
    rt: &R,
    alloc: Global,
    crew: &Crew,
    listener: &TcpListener,
    text: &[u8],
    count: usize,
) -> io::Result<bool> {
    let (stream, _) = listener.accept()?;
    let other = stream.try_clone()?;
    let mut socket = Socket::new(rt, alloc, crew, stream);
    let told = look(alloc, &mut socket, &other, text, count);
    socket.close();
    Ok(told?)
}

/// The same of the second of two clients, of which the first one is gone by then.
fn accept_two_and_look<R: Threads + Clock>(
    rt: &R,
    alloc: Global,
    listener: &TcpListener,
    text: &[u8],
    count: usize,
) -> io::Result<bool> {
    let crew = Crew::new(2);
    let (first, _) = listener.accept()?;
    Socket::new(rt, alloc, &crew, first).close();
    accept_and_look(rt, alloc, &crew, listener, text, count)
}

/// A client that comes and goes, and then one that sends this, and nothing behind it.
fn come_and_send<H>(rt: &H, address: SocketAddr, text: &[u8]) -> io::Result<usize>
where
    H: Net<Listener = TcpListener, Stream = TcpStream> + Alloc<A = Global>,
{
    drop(TcpStream::connect(rt, address)?);
    send_and_wait(rt, address, text, true)
}

/// Whether all of this is sent, and what follows its first bytes is read ahead, and given behind them.
fn told_of_what_follows<H>(rt: &H, text: &[u8], count: usize) -> io::Result<(bool, bool)>
where
    H: Net<Listener = TcpListener, Stream = TcpStream> + Threads + Clock + Sync + Alloc<A = Global>,
{
    let (listener, address) = listening(rt)?;
    let (sent, is_read_ahead) = join(
        rt,
        || come_and_send(rt, address, text),
        || accept_two_and_look(rt, rt.alloc(), &listener, text, count),
    );
    Ok((sent.is_ok(), is_read_ahead?))
}

/// The same of three long writes, of which the first one is read first.
fn told_of_three_writes<H>(rt: &H) -> io::Result<(bool, bool)>
where
    H: Net<Listener = TcpListener, Stream = TcpStream> + Threads + Clock + Sync + Alloc<A = Global>,
{
    let count = FLAGS.len() + HEAD.len() + 524_288;
    let text = long_writes(rt.alloc(), b"abc", b"")?;
    told_of_what_follows(rt, &text, count)
}

/// What a client sends behind a long write is read while that write could be asked, where there is
/// a processor for it: who is gone has none. The read behind it ends with a write, too.
#[test]
fn what_follows_a_long_write_is_read_ahead(rt: HostRuntime) -> Result<(), Fail> {
    let told = told_of_three_writes(&rt)?;
    assert_eq!(rt; told, (true, true));
    Ok(())
}

/// Whether this is what is read of the next client.
fn is_read<R: Threads + Clock>(
    rt: &R,
    alloc: Global,
    listener: &TcpListener,
    wanted: &[u8],
) -> io::Result<bool> {
    let (read, _) = accept_and_read(rt, alloc, listener, wanted.len())?;
    Ok(read.as_slice() == wanted)
}

/// Whether all of this is sent, and so much of it read in order.
fn told_of_order<H>(rt: &H, text: &[u8], len: usize) -> io::Result<(bool, bool)>
where
    H: Net<Listener = TcpListener, Stream = TcpStream> + Threads + Clock + Sync + Alloc<A = Global>,
{
    let (listener, address) = listening(rt)?;
    let (wanted, _) = text.split_at(len.min(text.len()));
    let (sent, is_read) = join(
        rt,
        || send_and_wait(rt, address, text, false),
        || is_read(rt, rt.alloc(), &listener, wanted),
    );
    Ok((sent.is_ok(), is_read?))
}

/// The same of long writes of each of these letters, and this behind them, which is not wanted.
fn told_of_letters<H>(rt: &H, letters: &[u8], behind: &[u8]) -> io::Result<(bool, bool)>
where
    H: Net<Listener = TcpListener, Stream = TcpStream> + Threads + Clock + Sync + Alloc<A = Global>,
{
    let text = long_writes(rt.alloc(), letters, behind)?;
    let len = text.len().saturating_sub(behind.len());
    told_of_order(rt, &text, len)
}

/// By how many reads the next client is read that sends so many bytes.
fn accept_and_count<R: Threads + Clock>(
    rt: &R,
    alloc: Global,
    listener: &TcpListener,
    count: usize,
) -> io::Result<u64> {
    let (_, reads) = accept_and_read(rt, alloc, listener, count)?;
    Ok(reads)
}

/// By how many reads this is read of a client.
fn reads_of<H>(rt: &H, text: &[u8]) -> io::Result<u64>
where
    H: Net<Listener = TcpListener, Stream = TcpStream> + Threads + Clock + Sync + Alloc<A = Global>,
{
    let (listener, address) = listening(rt)?;
    let (sent, reads) = join(
        rt,
        || send_and_wait(rt, address, text, false),
        || accept_and_count(rt, rt.alloc(), &listener, text.len()),
    );
    sent?;
    reads
}

/// The same of the flags and a short request.
fn reads_of_short<H>(rt: &H) -> io::Result<u64>
where
    H: Net<Listener = TcpListener, Stream = TcpStream> + Threads + Clock + Sync + Alloc<A = Global>,
{
    let text = long_writes(rt.alloc(), b"", READ)?;
    reads_of(rt, &text)
}

/// What is read ahead is handed out once, and in the order in which it was sent. A socket that
/// closes while another thread waits for the rest of a frame ends that read. Short frames that came
/// together are read together.
#[test]
fn long_writes_are_read_in_order(rt: HostRuntime) -> Result<(), Fail> {
    let told = told_of_letters(&rt, b"abcdefgh", b"")?;
    let (_, is_read) = told_of_letters(&rt, b"a", &HEAD[..10])?;
    let reads = reads_of_short(&rt)?;
    assert_eq!(rt; (told, is_read, reads), ((true, true), true, 1));
    Ok(())
}
