//! Where one volume of a pool that is served differs from another, as it is printed by who asks its server.

ghost use Rattle.std.specs.Prelude.{◌≡◌};

use crate::control::served_with_control;
use crate::served::listening;
use std::alloc::Global;
use std::io::{self, Read, Write};
use std::marker::Brand;
use std::net::{Net, SocketAddr, TcpListener, TcpStream};
use std::sync::Wait;
use std::test::Fail;
use std::thread::{Threads, join};
use std::time::Clock;
use tp_failures::Failure;
use tp_lines::{Begins, Ends, Piped};
use tp_model::Refusal;
use tp_places::delta_at;

/// What is asked: at which place, of which volume, and whether for JSON.
#[derive(Drop)]
struct Question<'p> {
    place: &'p str,
    new: u64,
    is_json: bool,
}

/// Asks where that volume differs from the first one, and prints it to a writer, as a pipe from where this one begins.
fn ask_since<'a, H, R: Read, W: Write, K: Begins>(
    rt: &H,
    question: &Question<'_>,
    ends: Ends<'a, R, W>,
) -> (Ends<'a, R, W>, Result<(), Failure>)
where
    H: Net<Listener = TcpListener, Stream = TcpStream> + Alloc<A = Global>,
    requires { K.opening ≡ record { reader = ends.input.ghost_name; writer = ends.output.ghost_name; left = R.remaining ends.input.now; told = W.contents ends.output.now } }
{
    let mut piped = Piped::<R, W, K>::begin(ends);
    let asked = delta_at(
        rt,
        rt.alloc(),
        question.place,
        0,
        question.new,
        question.is_json,
        &mut piped,
    );
    (piped.end(), asked)
}

/// The same over any reader and any writer.
fn ask<H, R: Read, W: Write>(
    rt: &H,
    question: &Question<'_>,
    input: &mut R,
    output: &mut W,
) -> Result<(), Failure>
where
    H: Net<Listener = TcpListener, Stream = TcpStream> + Alloc<A = Global>,
{
    let (_, asked) = ask_since::<H, R, W, Brand>(rt, question, Ends { input, output });
    asked
}

/// By what it was refused, and whether this is all that was printed.
type Told = (Option<Refusal>, bool);

/// What is told of a volume at a place, of which this is to be printed.
fn told<H>(rt: &H, place: &str, new: u64, is_json: bool, wanted: &[u8]) -> Told
where
    H: Net<Listener = TcpListener, Stream = TcpStream> + Alloc<A = Global>,
{
    let question = Question {
        place,
        new,
        is_json,
    };
    let mut input: &[u8] = b"";
    let mut output = Vec::new(rt.alloc());
    let refusal = match ask(rt, &question, &mut input, &mut output) {
        Ok(()) => None,
        Err(failure) => Some(failure.refusal),
    };
    (refusal, output.as_slice() == wanted)
}

/// The last half of the second volume differs from the first one: a run of which each of two pages has a part.
const LINES: &[u8] = b"0 9830400 hole\n9830400 9830400\n";

/// The same as JSON.
const OBJECTS: &[u8] =
    b"[{\"data\":false,\"length\":9830400,\"offset\":0},{\"data\":true,\"length\":9830400,\"offset\":9830400}]\n";

/// What is told of the second volume, in lines and as JSON, and of one that is not there. Then the client comes and goes.
fn ask_and_go<H>(rt: &H, place: &str, clients: SocketAddr) -> io::Result<(Told, Told, Told)>
where
    H: Net<Listener = TcpListener, Stream = TcpStream> + Alloc<A = Global>,
{
    let told = (
        told(rt, place, 1, false, LINES),
        told(rt, place, 1, true, OBJECTS),
        told(rt, place, 2, false, b""),
    );
    drop(TcpStream::connect(rt, clients)?);
    Ok(told)
}

/// That, and how many clients came, and how many were refused.
type Served = ((Told, Told, Told), (u8, u64));

/// The same beside those who serve it.
fn told_beside<H>(
    rt: &H,
    listener: TcpListener,
    control: &TcpListener,
    place: &str,
    clients: SocketAddr,
) -> Result<Served, Fail>
where
    H: Net<Listener = TcpListener, Stream = TcpStream>
        + Threads
        + Wait
        + Clock
        + Sync
        + Alloc<A = Global>,
{
    let (told, served) = join(
        rt,
        || ask_and_go(rt, place, clients),
        || served_with_control(rt, listener, control),
    );
    Ok((told?, served?))
}

/// The same of a listener of loopback for clients.
fn told_at<H>(rt: &H, control: &TcpListener, place: &str) -> Result<Served, Fail>
where
    H: Net<Listener = TcpListener, Stream = TcpStream>
        + Threads
        + Wait
        + Clock
        + Sync
        + Alloc<A = Global>,
{
    let (listener, clients) = listening(rt)?;
    told_beside(rt, listener, control, place, clients)
}

/// The same where the place is this address.
fn told_at_address<H>(rt: &H, control: &TcpListener, lines: SocketAddr) -> Result<Served, Fail>
where
    H: Net<Listener = TcpListener, Stream = TcpStream>
        + Threads
        + Wait
        + Clock
        + Sync
        + Alloc<A = Global>,
{
    let place = format!(in rt.alloc(); "{lines}")?;
    told_at(rt, control, &place)
}

/// The same of another listener for control lines.
fn told_of_deltas<H>(rt: &H) -> Result<Served, Fail>
where
    H: Net<Listener = TcpListener, Stream = TcpStream>
        + Threads
        + Wait
        + Clock
        + Sync
        + Alloc<A = Global>,
{
    let (control, lines) = listening(rt)?;
    told_at_address(rt, &control, lines)
}

/// Accepts a client, and answers its line that the pool is damaged.
fn tell_damage(listener: &TcpListener) -> io::Result<()> {
    let (mut client, _) = listener.accept()?;
    client.read(&mut [0; 64])?;
    client.write_all(b"refused 2\n")
}

/// What is told at a place where that is answered.
fn told_of_damage_at<H>(rt: &H, listener: &TcpListener, place: &str) -> Result<Told, Fail>
where
    H: Net<Listener = TcpListener, Stream = TcpStream> + Threads + Sync + Alloc<A = Global>,
{
    let (told, answered) = join(
        rt,
        || told(rt, place, 1, false, b""),
        || tell_damage(listener),
    );
    answered?;
    Ok(told)
}

/// The same of a listener of loopback.
fn told_of_damage<H>(rt: &H) -> Result<Told, Fail>
where
    H: Net<Listener = TcpListener, Stream = TcpStream> + Threads + Sync + Alloc<A = Global>,
{
    let (listener, lines) = listening(rt)?;
    let place = format!(in rt.alloc(); "{lines}")?;
    told_of_damage_at(rt, &listener, &place)
}

/// Pages are joined, their runs and the holes between them printed, and nothing of a volume that
/// the server does not know, or of a damaged pool.
#[test]
fn a_delta_of_a_pool_that_is_served(rt: HostRuntime) -> Result<(), Fail> {
    let told = told_of_deltas(&rt)?;
    let damaged = told_of_damage(&rt)?;
    let unknown = Some(Refusal::NoSuchDevice);
    assert_eq!(rt;
        (told, damaged),
        (
            (((None, true), (None, true), (unknown, true)), (1, 0)),
            (Some(Refusal::Damaged), true)
        )
    );
    Ok(())
}
