//! Clients over a loopback address.

use crate::parts::pass_over;
use crate::served::{Left, listening, served};
use crate::talk::{ANSWERED_GO, GO, READ, answers, session};
use std::alloc::Global;
use std::io::{ErrorKind, Read, Write};
use std::net::{Net, Shutdown, SocketAddr, TcpListener, TcpStream};
use std::sync::Wait;
use std::test::Fail;
use std::thread::{Threads, join};
use std::time::{Clock, Duration};
use std::{io, thread};

/// Sends a whole session.
fn send_session(alloc: Global, client: &mut TcpStream) -> io::Result<()> {
    client.write_all(&session(alloc)?)?;
    client.shutdown(Shutdown::Write)
}

/// Whether these are the answers to that session.
fn are_answers(alloc: Global, sent: &[u8]) -> io::Result<bool> {
    Ok(answers(alloc)?.as_slice() == sent)
}

/// Whether that is all that a client is sent.
fn is_answered(alloc: Global, client: &mut TcpStream) -> io::Result<bool> {
    let mut sent = Vec::new(alloc);
    client.read_to_end(&mut sent)?;
    are_answers(alloc, &sent)
}

/// Serves a client, and tells whether it is sent all answers.
fn served_and_answered<H>(
    rt: &H,
    listener: TcpListener,
    client: &mut TcpStream,
) -> Result<(Left, bool), Fail>
where
    H: Threads + Wait + Clock + Sync + Alloc<A = Global>,
{
    let left = served(rt, listener, 1)?;
    Ok((left, is_answered(rt.alloc(), client)?))
}

/// A client that sent a whole session.
fn sent_client<H>(rt: &H, address: SocketAddr) -> io::Result<TcpStream>
where
    H: Net<Listener = TcpListener, Stream = TcpStream> + Alloc<A = Global>,
{
    let mut client = TcpStream::connect(rt, address)?;
    send_session(rt.alloc(), &mut client)?;
    Ok(client)
}

/// The same of such a client.
fn told_of_session<H>(rt: &H) -> Result<(Left, bool), Fail>
where
    H: Net<Listener = TcpListener, Stream = TcpStream>
        + Threads
        + Wait
        + Clock
        + Sync
        + Alloc<A = Global>,
{
    let (listener, address) = listening(rt)?;
    let mut client = sent_client(rt, address)?;
    served_and_answered(rt, listener, &mut client)
}

/// A client that sent a whole session before it is accepted reads the answers to it.
#[test]
fn a_session_over_loopback(rt: HostRuntime) -> Result<(), Fail> {
    let told = told_of_session(&rt)?;
    assert_eq!(rt; told, ((1, 0, 0), true));
    Ok(())
}

/// What is left where an accept would wait, and fails.
fn told_of_no_accept<H>(rt: &H) -> Result<Left, Fail>
where
    H: Net<Listener = TcpListener, Stream = TcpStream>
        + Threads
        + Wait
        + Clock
        + Sync
        + Alloc<A = Global>,
{
    let listener = TcpListener::bind(rt, "[::1]:0")?;
    listener.set_nonblocking(true)?;
    Ok(served(rt, listener, 2)?)
}

/// An accept that fails ends the list of clients: here one that would wait.
#[test]
fn an_accept_that_fails_ends_it(rt: HostRuntime) -> Result<(), Fail> {
    let left = told_of_no_accept(&rt)?;
    assert_eq!(rt; left, (0, 0, 0));
    Ok(())
}

/// Whether the system refuses who comes to an address: now, or by 5 seconds from now.
fn is_refused<H>(rt: &H, address: SocketAddr) -> bool
where
    H: Net<Listener = TcpListener, Stream = TcpStream> + Clock,
{
    for _ in 0..100 {
        match TcpStream::connect(rt, address) {
            Err(error) if error.kind() == ErrorKind::ConnectionRefused => return true,
            _ => thread::sleep(rt, Duration::from_millis(50)),
        }
    }
    false
}

/// Goes to a volume, and reads when one more came: whether that one was refused, and how many bytes the read was answered by.
fn go_and_read<H>(rt: &H, address: SocketAddr, client: &mut TcpStream) -> io::Result<(bool, usize)>
where
    H: Net<Listener = TcpListener, Stream = TcpStream> + Clock + Alloc<A = Global>,
{
    let greeted = usize::try_from(ANSWERED_GO).unwrap_or(0);
    pass_over(rt.alloc(), client, GO, greeted)?;
    let is_refused = is_refused(rt, address);
    Ok((is_refused, pass_over(rt.alloc(), client, READ, 528)?))
}

/// A client that does that.
fn stay_beside<H>(rt: &H, address: SocketAddr) -> io::Result<(bool, usize)>
where
    H: Net<Listener = TcpListener, Stream = TcpStream> + Clock + Alloc<A = Global>,
{
    let mut client = TcpStream::connect(rt, address)?;
    go_and_read(rt, address, &mut client)
}

/// What is told of that client, and left of those who serve it.
fn told_of_one_more<H>(rt: &H) -> Result<((bool, usize), Left), Fail>
where
    H: Net<Listener = TcpListener, Stream = TcpStream>
        + Threads
        + Wait
        + Clock
        + Sync
        + Alloc<A = Global>,
{
    let (listener, address) = listening(rt)?;
    let (told, left) = join(rt, || stay_beside(rt, address), || served(rt, listener, 1));
    Ok((told?, left?))
}

/// While the last client is served, nobody listens any more.
#[test]
fn one_more_is_refused(rt: HostRuntime) -> Result<(), Fail> {
    let told = told_of_one_more(&rt)?;
    assert_eq!(rt; told, ((true, 528), (1, 0, 0)));
    Ok(())
}
