//! Clients without end, over loopback addresses.

use crate::parts::{is_sent_back, pass_over};
use crate::served::listening;
use crate::talk::{ANSWERED_GO, GO};
use crate::waiting::Seen;
use nbd_session::Profile;
use std::alloc::{AllocError, Global};
use std::io;
use std::io::Read;
use std::net::{Net, SocketAddr, TcpListener, TcpStream};
use std::sync::Wait;
use std::test::Fail;
use std::thread::{Threads, join};
use std::time::{Clock, Duration};
use tp_crowd::{Door, Stayed, serve_until_stopped};
use tp_hub::Hub;
use tp_model::{Mode, Refusal, Volumes};
use tp_shelf::{Shelf, blank_shelf, failing_shelf};

/// So many clients come one after the other: more than are served at a time.
const CLIENTS: u32 = 70;

/// Has a client be told of its volume. It waits 10 seconds at most for what it reads.
fn go(alloc: Global, client: &mut TcpStream) -> io::Result<()> {
    client.set_read_timeout(Some(Duration::from_millis(10_000)))?;
    pass_over(alloc, client, GO, ANSWERED_GO as usize)?;
    Ok(())
}

/// A client that was told of its volume.
fn told_client<H>(rt: &H, clients: SocketAddr) -> io::Result<TcpStream>
where
    H: Net<Listener = TcpListener, Stream = TcpStream> + Alloc<A = Global>,
{
    let mut client = TcpStream::connect(rt, clients)?;
    go(rt.alloc(), &mut client)?;
    Ok(client)
}

/// Sends a line: whether it is answered so.
fn is_line_answered(
    alloc: Global,
    ruler: &mut TcpStream,
    line: &[u8],
    answer: &[u8],
) -> io::Result<bool> {
    ruler.set_read_timeout(Some(Duration::from_millis(10_000)))?;
    is_sent_back(alloc, ruler, line, answer)
}

/// Says a line to those who serve: whether it is answered so.
fn is_answered<H>(rt: &H, control: SocketAddr, line: &[u8], answer: &[u8]) -> io::Result<bool>
where
    H: Net<Listener = TcpListener, Stream = TcpStream> + Alloc<A = Global>,
{
    let mut ruler = TcpStream::connect(rt, control)?;
    is_line_answered(rt.alloc(), &mut ruler, line, answer)
}

/// Whether it is answered that it is done.
fn is_done<H>(rt: &H, control: SocketAddr, line: &[u8]) -> io::Result<bool>
where
    H: Net<Listener = TcpListener, Stream = TcpStream> + Alloc<A = Global>,
{
    is_answered(rt, control, line, b"ok\n")
}

/// How many of so many clients, one after the other, were told of their volume.
fn told_clients<H>(rt: &H, clients: SocketAddr, count: u32) -> u32
where
    H: Net<Listener = TcpListener, Stream = TcpStream> + Alloc<A = Global>,
{
    let mut told = 0u32;
    for _ in 0..count {
        if told_client(rt, clients).is_ok() {
            told = told.saturating_add(1);
        }
    }
    told
}

/// All of them, and then the line: how many were told of their volume, and whether that is done.
fn come_and_stop<H>(rt: &H, clients: SocketAddr, control: SocketAddr) -> io::Result<(u32, bool)>
where
    H: Net<Listener = TcpListener, Stream = TcpStream> + Alloc<A = Global>,
{
    let told = told_clients(rt, clients, CLIENTS);
    Ok((told, is_done(rt, control, b"stop\n")?))
}

/// A client that stays: how many bytes it reads when those who serve are told to stop now, and whether that is done.
fn stay_to_the_end<H>(rt: &H, clients: SocketAddr, control: SocketAddr) -> io::Result<(u32, bool)>
where
    H: Net<Listener = TcpListener, Stream = TcpStream> + Alloc<A = Global>,
{
    let client = told_client(rt, clients);
    let done = is_done(rt, control, b"stop now\n")?;
    let count = client?.read(&mut [0])?;
    Ok((count as u32, done))
}

/// Lines, and what each is answered while one client has a volume and another has none.
const LINES: &[(&[u8], &[u8])] = &[
    (b"clients\n", b"2 of 64: 0\n"),
    (b"flush\n", b"ok\n"),
    (b"health\n", b"ok\n"),
    (b"health now\n", b"refused 11\n"),
    (b"flush now\n", b"refused 11\n"),
    (b"size x\n", b"refused 11\n"),
    (b"flushed\n", b"refused 12\n"),
    (b"thin 2\n", b"refused 15\n"),
];

/// How many of these lines are answered so.
fn told_lines<H>(rt: &H, control: SocketAddr) -> io::Result<u32>
where
    H: Net<Listener = TcpListener, Stream = TcpStream> + Alloc<A = Global>,
{
    let mut told = 0u32;
    for (line, answer) in LINES {
        let is_so = is_answered(rt, control, line, answer)?;
        told = told.saturating_add(u32::from(is_so));
    }
    Ok(told)
}

/// The same while one client has a volume and another has none.
fn told_lines_beside<H>(rt: &H, clients: SocketAddr, control: SocketAddr) -> io::Result<u32>
where
    H: Net<Listener = TcpListener, Stream = TcpStream> + Alloc<A = Global>,
{
    let stays = told_client(rt, clients)?;
    let other = greeted_client(rt, clients)?;
    let told = told_lines(rt, control);
    drop((stays, other));
    told
}

/// The same, and whether all is stopped then.
fn ask_beside<H>(rt: &H, clients: SocketAddr, control: SocketAddr) -> io::Result<(u32, bool)>
where
    H: Net<Listener = TcpListener, Stream = TcpStream> + Alloc<A = Global>,
{
    let told = told_lines_beside(rt, clients, control)?;
    Ok((told, is_done(rt, control, b"stop now\n")?))
}

/// A read of the first MiB.
const LONG_READ: &[u8] = b"\x25\x60\x95\x13\0\0\0\0\0\0\0\0\0\0\0\x02\0\0\0\0\0\0\0\0\0\x10\0\0";

/// Many of them: more than the system holds for a client that takes none of their answers.
fn many_reads(alloc: Global) -> Result<Vec<u8>, AllocError> {
    let mut text = Vec::new(alloc);
    for _ in 0..32 {
        text.extend_from_slice(LONG_READ)?;
    }
    Ok(text)
}

/// Makes many reads, and takes only the head of what they are answered.
fn take_a_head(alloc: Global, client: &mut TcpStream) -> io::Result<usize> {
    let reads = many_reads(alloc)?;
    pass_over(alloc, client, &reads, 16)
}

/// Tells those who serve to stop now: whether they end within 20 seconds, and whether that is done.
fn stop_now(alloc: Global, ruler: &mut TcpStream) -> io::Result<(u32, bool)> {
    ruler.set_read_timeout(Some(Duration::from_millis(20_000)))?;
    let done = is_sent_back(alloc, ruler, b"stop now\n", b"ok\n")?;
    let is_over = matches!(ruler.read(&mut [0]), Ok(0));
    Ok((u32::from(is_over), done))
}

/// The same by a new control client.
fn stopped_now<H>(rt: &H, control: SocketAddr) -> io::Result<(u32, bool)>
where
    H: Net<Listener = TcpListener, Stream = TcpStream> + Alloc<A = Global>,
{
    let mut ruler = TcpStream::connect(rt, control)?;
    stop_now(rt.alloc(), &mut ruler)
}

/// A client takes only the head of what it is answered: whether those who serve end while it stays, and whether it is done that they are to stop now.
fn stay_with_a_head<H>(
    rt: &H,
    control: SocketAddr,
    client: &mut TcpStream,
) -> io::Result<(u32, bool)>
where
    H: Net<Listener = TcpListener, Stream = TcpStream> + Alloc<A = Global>,
{
    take_a_head(rt.alloc(), client)?;
    stopped_now(rt, control)
}

/// The same of a new client.
fn take_nothing<H>(rt: &H, clients: SocketAddr, control: SocketAddr) -> io::Result<(u32, bool)>
where
    H: Net<Listener = TcpListener, Stream = TcpStream> + Alloc<A = Global>,
{
    let mut client = told_client(rt, clients)?;
    stay_with_a_head(rt, control, &mut client)
}

/// Reads until the other side closes: how many bytes came.
fn count_rest(alloc: Global, client: &mut TcpStream) -> io::Result<usize> {
    let mut rest = Vec::new(alloc);
    client.read_to_end(&mut rest)
}

/// A client takes the head of what it is answered before those who serve are told to stop now, and the rest behind that: whether whole answers came, and whether
/// it is done that they are to stop now.
fn take_the_rest<H>(rt: &H, control: SocketAddr, client: &mut TcpStream) -> io::Result<(u32, bool)>
where
    H: Net<Listener = TcpListener, Stream = TcpStream> + Alloc<A = Global>,
{
    take_a_head(rt.alloc(), client)?;
    let done = is_done(rt, control, b"stop now\n")?;
    let rest = count_rest(rt.alloc(), client)?;
    let is_whole = rest > 0 && rest % 1_048_592 == 1_048_576;
    Ok((u32::from(is_whole), done))
}

/// The same of a new client.
fn take_late<H>(rt: &H, clients: SocketAddr, control: SocketAddr) -> io::Result<(u32, bool)>
where
    H: Net<Listener = TcpListener, Stream = TcpStream> + Alloc<A = Global>,
{
    let mut client = told_client(rt, clients)?;
    take_the_rest(rt, control, &mut client)
}

/// How many of these are so.
fn count_so(are: &[bool]) -> u32 {
    let mut count = 0u32;
    for is in are {
        count = count.saturating_add(u32::from(*is));
    }
    count
}

/// Has a client be greeted. It waits 10 seconds at most for what it reads.
fn be_greeted(client: &mut TcpStream) -> io::Result<()> {
    client.set_read_timeout(Some(Duration::from_millis(10_000)))?;
    client.read_exact(&mut [0; 18])
}

/// A client that was greeted.
fn greeted_client<H>(rt: &H, clients: SocketAddr) -> io::Result<TcpStream>
where
    H: Net<Listener = TcpListener, Stream = TcpStream>,
{
    let mut client = TcpStream::connect(rt, clients)?;
    be_greeted(&mut client)?;
    Ok(client)
}

/// Adds so many of them.
fn add_greeted<H>(
    rt: &H,
    clients: SocketAddr,
    count: u32,
    all: &mut Vec<TcpStream>,
) -> io::Result<()>
where
    H: Net<Listener = TcpListener, Stream = TcpStream> + Alloc<A = Global>,
{
    for _ in 0..count {
        all.push(greeted_client(rt, clients)?)?;
    }
    Ok(())
}

/// So many of them.
fn greeted_clients<H>(rt: &H, clients: SocketAddr, count: u32) -> io::Result<Vec<TcpStream>>
where
    H: Net<Listener = TcpListener, Stream = TcpStream> + Alloc<A = Global>,
{
    let mut all = Vec::new(rt.alloc());
    add_greeted(rt, clients, count, &mut all)?;
    Ok(all)
}

/// Whether a client is sent nothing for a fifth of a second.
fn is_kept_waiting(client: &mut TcpStream) -> io::Result<bool> {
    client.set_read_timeout(Some(Duration::from_millis(200)))?;
    Ok(client.read_exact(&mut [0]).is_err())
}

/// Whether it is greeted, within 10 seconds.
fn is_greeted(client: &mut TcpStream) -> io::Result<bool> {
    client.set_read_timeout(Some(Duration::from_millis(10_000)))?;
    Ok(client.read_exact(&mut [0; 18]).is_ok())
}

/// Whether a client waits, and is greeted when one of these has gone; and whether all is stopped then.
fn wait_for_one<H>(
    rt: &H,
    control: SocketAddr,
    within: &mut Vec<TcpStream>,
    more: &mut TcpStream,
) -> io::Result<(u32, bool)>
where
    H: Net<Listener = TcpListener, Stream = TcpStream> + Alloc<A = Global>,
{
    let waits = is_kept_waiting(more)?;
    drop(within.pop());
    let greeted = is_greeted(more)?;
    Ok((
        count_so(&[waits, greeted]),
        is_done(rt, control, b"stop now\n")?,
    ))
}

/// The same of one more client than are served at a time.
fn come_as_one_more<H>(rt: &H, clients: SocketAddr, control: SocketAddr) -> io::Result<(u32, bool)>
where
    H: Net<Listener = TcpListener, Stream = TcpStream> + Alloc<A = Global>,
{
    let mut within = greeted_clients(rt, clients, 64)?;
    let mut more = TcpStream::connect(rt, clients)?;
    wait_for_one(rt, control, &mut within, &mut more)
}

/// Who comes while it is served.
#[derive(Clone, Copy)]
enum Guests {
    ComeAndGo,
    Stay,
    Ask,
    OneMore,
    TakeNothing,
    TakeLate,
}

/// What they are told.
fn told_guests<H>(
    rt: &H,
    guests: Guests,
    clients: SocketAddr,
    control: SocketAddr,
) -> io::Result<(u32, bool)>
where
    H: Net<Listener = TcpListener, Stream = TcpStream> + Alloc<A = Global>,
{
    match guests {
        Guests::ComeAndGo => come_and_stop(rt, clients, control),
        Guests::Stay => stay_to_the_end(rt, clients, control),
        Guests::Ask => ask_beside(rt, clients, control),
        Guests::OneMore => come_as_one_more(rt, clients, control),
        Guests::TakeNothing => take_nothing(rt, clients, control),
        Guests::TakeLate => take_late(rt, clients, control),
    }
}

/// What is left: whether each thread could be made, how many volumes are held, and of how many clients it was told that they have gone.
type Left = (bool, usize, u64);

fn left_of(stayed: Stayed<Shelf>, chronicle: &Seen) -> Left {
    let Stayed {
        hub,
        is_manned,
        askers: _,
    } = stayed;
    (is_manned, hub.into_pool().held(), chronicle.letters())
}

/// Serves until it is told to stop.
fn served_until_stopped<H>(rt: &H, doors: &[Door], control: &Door) -> Result<Left, Refusal>
where
    H: Threads + Wait + Clock + Sync + Alloc<A = Global>,
{
    let hub = Hub::new(blank_shelf(rt.alloc())?);
    let chronicle = Seen::nothing();
    let profile = Profile::Strict;
    let stayed = serve_until_stopped(
        rt,
        rt.alloc(),
        hub,
        doors,
        Some(control),
        profile,
        &chronicle,
    );
    Ok(left_of(stayed, &chronicle))
}

/// What clients are told, and what is left when it was told to stop.
type Told = ((u32, bool), Left);

/// That of such clients.
fn told_beside<H>(
    rt: &H,
    guests: Guests,
    doors: &[Door],
    control: &Door,
    addresses: (SocketAddr, SocketAddr),
) -> Result<Told, Fail>
where
    H: Net<Listener = TcpListener, Stream = TcpStream>
        + Threads
        + Wait
        + Clock
        + Sync
        + Alloc<A = Global>,
{
    let (clients, lines) = addresses;
    let (told, left) = join(
        rt,
        || told_guests(rt, guests, clients, lines),
        || served_until_stopped(rt, doors, control),
    );
    Ok((told?, left?))
}

/// A door of loopback, and its address.
fn door_of_loopback<H>(rt: &H) -> io::Result<(Door, SocketAddr)>
where
    H: Net<Listener = TcpListener, Stream = TcpStream>,
{
    let (listener, address) = listening(rt)?;
    Ok((Door::tcp(listener)?, address))
}

/// The same at doors of loopback.
fn told_at_doors<H>(rt: &H, guests: Guests) -> Result<Told, Fail>
where
    H: Net<Listener = TcpListener, Stream = TcpStream>
        + Threads
        + Wait
        + Clock
        + Sync
        + Alloc<A = Global>,
{
    let (control, lines) = door_of_loopback(rt)?;
    let (door, clients) = door_of_loopback(rt)?;
    let doors = [door];
    told_beside(rt, guests, &doors, &control, (clients, lines))
}

/// More clients than are served at a time come one after the other, and each is served; then it stops where it is told to. One more than are served at a
/// time waits, and is served when another one has gone. Those who have no volume count too. A control line with wrong arguments is refused as such, a
/// longer first word as no message, and there is no third volume.
const WHILE_SERVED: [(Guests, Told); 3] = [
    (
        Guests::ComeAndGo,
        ((CLIENTS, true), (true, 0, CLIENTS as u64)),
    ),
    (Guests::OneMore, ((2, true), (true, 0, 65))),
    (Guests::Ask, ((8, true), (true, 0, 2))),
];

/// Where it is to stop now, a client that stays is at its end; one that takes no answers is let go some seconds later; and one that takes them late has all
/// of them that are of what was read.
const AT_A_STOP: [(Guests, Told); 3] = [
    (Guests::Stay, ((0, true), (true, 0, 1))),
    (Guests::TakeNothing, ((1, true), (true, 0, 1))),
    (Guests::TakeLate, ((1, true), (true, 0, 1))),
];

/// The first of these of whom something else is told.
fn first_others<H>(rt: &H, all: &[(Guests, Told)]) -> Result<Option<usize>, Fail>
where
    H: Net<Listener = TcpListener, Stream = TcpStream>
        + Threads
        + Wait
        + Clock
        + Sync
        + Alloc<A = Global>,
{
    for (i, (guests, wanted)) in all.iter().enumerate() {
        if told_at_doors(rt, *guests)? != *wanted {
            return Ok(Some(i));
        }
    }
    Ok(None)
}

#[test]
fn clients_come_without_end(rt: HostRuntime) -> Result<(), Fail> {
    let others = first_others(&rt, &WHILE_SERVED)?;
    assert_eq!(rt; others, None);
    Ok(())
}

#[test]
fn who_stays_is_let_go(rt: HostRuntime) -> Result<(), Fail> {
    let others = first_others(&rt, &AT_A_STOP)?;
    assert_eq!(rt; others, None);
    Ok(())
}

/// Serves a pool that fails in its first flush, without an NBD client and until the pool has failed.
/// Returns whether it has.
fn served_until_failed<H>(rt: &H, control: &Door) -> Result<bool, Refusal>
where
    H: Threads + Wait + Clock + Sync + Alloc<A = Global>,
{
    let hub = Hub::new(failing_shelf()?);
    let chronicle = Seen::until_failed();
    let profile = Profile::Strict;
    let Stayed {
        hub,
        is_manned: _,
        askers: _,
    } = serve_until_stopped(rt, rt.alloc(), hub, &[], Some(control), profile, &chronicle);
    Ok(hub.into_pool().mode() == Mode::Failed)
}

/// A control client sends `flush`, by which the pool fails, and `health`. Returns whether the replies
/// are right, and whether the pool has failed when the server ends by itself.
fn told_of_failing<H>(rt: &H) -> Result<(bool, bool), Fail>
where
    H: Net<Listener = TcpListener, Stream = TcpStream>
        + Threads
        + Wait
        + Clock
        + Sync
        + Alloc<A = Global>,
{
    let (control, lines) = door_of_loopback(rt)?;
    let (told, left) = join(
        rt,
        || is_answered(rt, lines, b"flush\nhealth\n", b"refused 2\nfailed\n"),
        || served_until_failed(rt, &control),
    );
    Ok((told?, left?))
}

/// No control line stops the server.
#[test]
fn a_failed_pool_ends_all(rt: HostRuntime) -> Result<(), Fail> {
    assert_eq!(rt; told_of_failing(&rt)?, (true, true));
    Ok(())
}
