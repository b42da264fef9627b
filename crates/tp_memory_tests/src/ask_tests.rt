//! The command that sends control lines, to one who answers one connection. He takes no memory.

use crate::beside::has_begun;
use crate::commands::{Ask, Ran, run};
use crate::outcome::Outcome;
use std::alloc::Global;
use std::fs::File;
use std::io::{Read, Write};
use std::net::{Net, SocketAddr, TcpListener, TcpStream};
use std::rt::Files;
use std::sync::Wait;
use std::sync::atomic::{AtomicBool, Ordering};
use std::thread::{Threads, join};
use std::time::Clock;
use tp_images::MemImages;

/// Whether a client sends these bytes, and then no more.
fn hears(client: &mut TcpStream, bytes: &[u8]) -> bool {
    let mut byte = [0];
    for wanted in bytes {
        match client.read(&mut byte) {
            Ok(1) if byte == [*wanted] => {}
            _ => return false,
        }
    }
    matches!(client.read(&mut byte), Ok(0))
}

/// Answers whoever comes first, if he sends the line.
fn answer(begun: &AtomicBool, listener: &TcpListener) {
    begun.store(true, Ordering::SeqCst);
    let Ok((mut client, _)) = listener.accept() else {
        return;
    };
    if hears(&mut client, b"create_thin 7\n") {
        let _ = client.write_all(b"ok of this test\n");
    }
}

/// Runs the program where somebody is there to answer, and then comes himself, for the program may not have.
fn ask_and_come<H>(rt: &H, begun: &AtomicBool, ask: &Ask<'_>, address: SocketAddr) -> Option<Ran>
where
    H: Files<File = File>
        + Net<Listener = TcpListener, Stream = TcpStream>
        + Threads
        + Wait
        + Clock
        + Sync
        + Alloc<A = Global>,
{
    let ran = if has_begun(rt, begun) {
        run(rt, &mut MemImages::new(rt.alloc()), ask)
    } else {
        None
    };
    let _ = TcpStream::connect(rt, address);
    ran
}

/// The same beside who answers.
fn asked<H>(rt: &H, listener: &TcpListener, ask: &Ask<'_>, address: SocketAddr) -> Option<Ran>
where
    H: Files<File = File>
        + Net<Listener = TcpListener, Stream = TcpStream>
        + Threads
        + Wait
        + Clock
        + Sync
        + Alloc<A = Global>,
{
    let begun = AtomicBool::new(false);
    let ((), ran) = join(
        rt,
        || answer(&begun, listener),
        || ask_and_come(rt, &begun, ask, address),
    );
    ran
}

/// Sends a line to one who listens at this address. None where that is not done.
fn asked_at<H>(rt: &H, listener: &TcpListener, address: SocketAddr) -> Option<Outcome>
where
    H: Files<File = File>
        + Net<Listener = TcpListener, Stream = TcpStream>
        + Threads
        + Wait
        + Clock
        + Sync
        + Alloc<A = Global>,
{
    let place = format!(in rt.alloc(); "{address}").ok()?;
    let ask = Ask {
        words: &["thinpool", "ask", &place, "create_thin 7"],
        input: b"",
        output: b"ok of this test\n",
    };
    let ran = asked(rt, listener, &ask, address)?;
    Some(told(&ran, &ask))
}

/// The same of a new listener. None also where the system refuses it.
fn asked_anew<H>(rt: &H) -> Option<Outcome>
where
    H: Files<File = File>
        + Net<Listener = TcpListener, Stream = TcpStream>
        + Threads
        + Wait
        + Clock
        + Sync
        + Alloc<A = Global>,
{
    let listener = TcpListener::bind(rt, "127.0.0.1:0").ok()?;
    let address = listener.local_addr().ok()?;
    asked_at(rt, &listener, address)
}

/// What a call came to that is not asked again yet.
fn told(ran: &Ran, ask: &Ask<'_>) -> Outcome {
    if ran.is_memory(ask) {
        return Outcome::Refused;
    }
    Outcome::done(ran.is_done(ask))
}

/// What a line comes to that is sent to one who listens.
fn outcome_of_ask<H>(rt: &H) -> Outcome
where
    H: Files<File = File>
        + Net<Listener = TcpListener, Stream = TcpStream>
        + Threads
        + Wait
        + Clock
        + Sync
        + Alloc<A = Global>,
{
    match asked_anew(rt) {
        None => Outcome::Before,
        Some(Outcome::Refused) => { Outcome::refused(true, asked_anew(rt) == Some(Outcome::Done)) }
        Some(outcome) => outcome,
    }
}

#[test]
fn command_ask(rt: HostRuntime) {
    let outcome = outcome_of_ask(&rt);
    assert!(rt; outcome.is_right(&mut rt.stdout()));
}
