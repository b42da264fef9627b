//! Control clients beside a client, over loopback addresses.

use crate::parts::is_sent_back;
use crate::served::listening;
use crate::waiting::Seen;
use std::alloc::Global;
use std::io;
use std::io::{ErrorKind, Read};
use std::net::{Net, SocketAddr, TcpListener, TcpStream};
use std::sync::Wait;
use std::test::Fail;
use std::thread::{Threads, join};
use std::time::{Clock, Duration};
use tp_crowd::{Served, serve_listener_with_control};
use tp_hub::Hub;
use tp_model::Refusal;
use tp_shelf::paged_shelf;

/// Sends a line, and fails where it is not answered that it is done. It waits 10 seconds at most for what it reads.
fn order(alloc: Global, client: &mut TcpStream, line: &[u8]) -> io::Result<()> {
    client.set_read_timeout(Some(Duration::from_millis(10_000)))?;
    if is_sent_back(alloc, client, line, b"ok\n")? {
        Ok(())
    } else {
        Err(io::Error::from(ErrorKind::InvalidData))
    }
}

/// A client that was answered that its line is done.
fn answered<H>(rt: &H, control: SocketAddr, line: &[u8]) -> io::Result<TcpStream>
where
    H: Net<Listener = TcpListener, Stream = TcpStream> + Alloc<A = Global>,
{
    let mut client = TcpStream::connect(rt, control)?;
    order(rt.alloc(), &mut client, line)?;
    Ok(client)
}

/// A client that is answered and goes, and then one that is answered and stays.
fn two_in_turn<H>(rt: &H, control: SocketAddr) -> io::Result<TcpStream>
where
    H: Net<Listener = TcpListener, Stream = TcpStream> + Alloc<A = Global>,
{
    drop(answered(rt, control, b"set_transaction_id 0 1\n")?);
    answered(rt, control, b"reserve_metadata_snap\n")
}

/// Both of them, and then the client comes and goes: how many bytes the one that stays reads then.
fn come_and_go<H>(rt: &H, clients: SocketAddr, control: SocketAddr) -> io::Result<usize>
where
    H: Net<Listener = TcpListener, Stream = TcpStream> + Alloc<A = Global>,
{
    let stays = two_in_turn(rt, control);
    drop(TcpStream::connect(rt, clients)?);
    stays?.read(&mut [0])
}

/// Serves one client and control clients: how many clients came, and how many were refused.
pub(crate) fn served_with_control<H>(
    rt: &H,
    listener: TcpListener,
    control: &TcpListener,
) -> Result<(u8, u64), Refusal>
where
    H: Threads + Wait + Clock + Sync + Alloc<A = Global>,
{
    let hub = Hub::new(paged_shelf(rt.alloc())?);
    let alarm = Seen::nothing();
    let Served {
        hub: _,
        came,
        refused,
    } = serve_listener_with_control(rt, rt.alloc(), hub, listener, 1, control, &alarm);
    Ok((came, refused))
}

/// How many bytes the control client reads that stays, and what is told of those who serve it.
fn told_beside<H>(
    rt: &H,
    listener: TcpListener,
    control: &TcpListener,
    addresses: (SocketAddr, SocketAddr),
) -> Result<(usize, (u8, u64)), Fail>
where
    H: Net<Listener = TcpListener, Stream = TcpStream>
        + Threads
        + Wait
        + Clock
        + Sync
        + Alloc<A = Global>,
{
    let (clients, lines) = addresses;
    let (told, served) = join(
        rt,
        || come_and_go(rt, clients, lines),
        || served_with_control(rt, listener, control),
    );
    Ok((told?, served?))
}

/// The same of listeners of loopback.
fn told_of_control<H>(rt: &H) -> Result<(usize, (u8, u64)), Fail>
where
    H: Net<Listener = TcpListener, Stream = TcpStream>
        + Threads
        + Wait
        + Clock
        + Sync
        + Alloc<A = Global>,
{
    let (control, lines) = listening(rt)?;
    let (listener, clients) = listening(rt)?;
    told_beside(rt, listener, &control, (clients, lines))
}

/// Control clients are answered one behind the other, and one that stays is let go when the last client is gone.
#[test]
fn control_ends_with_the_last_client(rt: HostRuntime) -> Result<(), Fail> {
    let told = told_of_control(&rt)?;
    assert_eq!(rt; told, (0, (1, 0)));
    Ok(())
}
