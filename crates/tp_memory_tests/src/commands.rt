//! Calls of the program over an image in memory.

use crate::disks::{Before, noted};
use crate::outcome::Outcome;
use std::alloc::{AllocError, Global};
use std::fs::File;
use std::net::{Net, TcpListener, TcpStream};
use std::rt::Files;
use std::sync::Wait;
use std::thread::Threads;
use std::time::Clock;
use tp_images::{Images, MemImages};
use tp_program::{Status, Terminals, program};

/// The name of the image.
pub(crate) const IMAGE: &str = "image";

/// No standard stream is a terminal.
pub(crate) const NO_TERMINAL: Terminals = Terminals {
    input: false,
    errors: false,
};

/// Room for all that is printed.
const ROOM: usize = 8192;

/// A call of the program: its words, what it reads, and what it prints where nothing is refused.
#[derive(Clone, Copy)]
pub(crate) struct Ask<'a> {
    pub words: &'a [&'a str],
    pub input: &'a [u8],
    pub output: &'a [u8],
}

/// A call that makes the image that of an empty pool.
pub(crate) const FORMAT: Ask<'static> = Ask {
    words: &["thinpool", "format", IMAGE, "128", "16", "1032", "4"],
    input: b"",
    output: b"0 9/1032 0/4 - rw no_discard_passdown error_if_no_space - 512\n",
};

/// One that makes volume 0.
pub(crate) const CREATE: Ask<'static> = Ask {
    words: &["thinpool", "message", IMAGE, "create_thin 0"],
    input: b"",
    output: b"ok\n",
};

/// One that makes volume 1.
pub(crate) const CREATE_SECOND: Ask<'static> = Ask {
    words: &["thinpool", "message", IMAGE, "create_thin 1"],
    input: b"",
    output: b"ok\n",
};

/// One that finds the image clean.
pub(crate) const CHECK: Ask<'static> = Ask {
    words: &["thinpool", "check", IMAGE],
    input: b"",
    output: b"clean\n",
};

/// How a call ended, and what it printed, for which there is room before.
#[derive(Drop)]
pub(crate) struct Ran {
    status: Status,
    output: Vec<u8>,
    errors: Vec<u8>,
}

impl Ran {
    /// Room for what a call prints.
    fn not_yet(alloc: Global) -> Result<Ran, AllocError> {
        Ok(Ran {
            status: Status::Misused,
            output: Vec::with_capacity(alloc, ROOM)?,
            errors: Vec::with_capacity(alloc, ROOM)?,
        })
    }

    /// Whether all was done and printed.
    pub(crate) fn is_done(&self, ask: &Ask<'_>) -> bool {
        self.status == Status::Done
            && self.errors.is_empty()
            && self.output.as_slice() == ask.output
    }

    /// Whether it is refused for memory, behind a beginning of what is printed where nothing is refused.
    pub(crate) fn is_memory(&self, ask: &Ask<'_>) -> bool {
        self.status == Status::Refused
            && tells(&self.errors, MEMORY)
            && ask.output.starts_with(&self.output)
    }

    /// Whether it is refused since the disk failed, or at closing since it had; what is printed before may tell so too.
    pub(crate) fn is_fault(&self) -> bool {
        self.status == Status::Refused
            && (tells(&self.errors, "thinpool: 5 Fault\n")
                || tells(&self.errors, "thinpool: 21 Failed\n"))
    }
}

/// The line of a call that was refused memory.
pub(crate) const MEMORY: &str = "thinpool: 10 Memory\n";

/// Whether this is one line that explains an error, or nothing: some commands explain theirs.
pub(crate) fn is_explanation(text: &str) -> bool {
    match text.split_once("\n") {
        None => text.is_empty(),
        Some((line, rest)) => line.starts_with("thinpool: ") && rest.is_empty(),
    }
}

/// Whether this error is told, and nothing else but its explanation.
fn tells(told: &[u8], error: &str) -> bool {
    let Ok(text) = std::str::from_utf8(told) else {
        return false;
    };
    match text.strip_prefix(error) {
        Some(rest) => is_explanation(rest),
        None => false,
    }
}

/// Runs the program.
fn run_into<H>(rt: &H, images: &mut MemImages, ask: &Ask<'_>, ran: &mut Ran)
where
    H: Files<File = File>
        + Net<Listener = TcpListener, Stream = TcpStream>
        + Threads
        + Wait
        + Clock
        + Sync
        + Alloc<A = Global>,
{
    let mut input = ask.input;
    ran.status = program(
        rt,
        images,
        rt.alloc(),
        ask.words,
        NO_TERMINAL,
        (),
        &mut input,
        &mut ran.output,
        &mut ran.errors,
    );
}

/// The same. None where there is no room for what it prints, and then it is not run.
pub(crate) fn run<H>(rt: &H, images: &mut MemImages, ask: &Ask<'_>) -> Option<Ran>
where
    H: Files<File = File>
        + Net<Listener = TcpListener, Stream = TcpStream>
        + Threads
        + Wait
        + Clock
        + Sync
        + Alloc<A = Global>,
{
    match Ran::not_yet(rt.alloc()) {
        Ok(mut ran) => {
            run_into(rt, images, ask, &mut ran);
            Some(ran)
        }
        Err(_) => None,
    }
}

/// Whether all was done and printed.
pub(crate) fn is_done<H>(rt: &H, images: &mut MemImages, ask: &Ask<'_>) -> bool
where
    H: Files<File = File>
        + Net<Listener = TcpListener, Stream = TcpStream>
        + Threads
        + Wait
        + Clock
        + Sync
        + Alloc<A = Global>,
{
    match run(rt, images, ask) {
        Some(ran) => ran.is_done(ask),
        None => false,
    }
}

/// What the image has.
pub(crate) fn before_in(alloc: Global, images: &mut MemImages) -> Option<Before> {
    let Ok(disk) = images.open(IMAGE) else {
        return None;
    };
    let before = noted(alloc, &disk);
    images.close(IMAGE, disk);
    before
}

/// Whether the image has all that it had and was not written, and whether it was written.
pub(crate) fn behind(images: &mut MemImages, before: &Before) -> (bool, bool) {
    let Ok(disk) = images.open(IMAGE) else {
        return (false, false);
    };
    let told = (before.is_kept(&disk), before.is_written(&disk));
    images.close(IMAGE, disk);
    told
}

/// What a call came to that ran so.
fn outcome<H>(rt: &H, images: &mut MemImages, ask: &Ask<'_>, before: &Before, ran: &Ran) -> Outcome
where
    H: Files<File = File>
        + Net<Listener = TcpListener, Stream = TcpStream>
        + Threads
        + Wait
        + Clock
        + Sync
        + Alloc<A = Global>,
{
    if ran.is_done(ask) {
        return Outcome::Done;
    }
    let (is_kept, is_written) = behind(images, before);
    if ran.is_memory(ask) {
        return Outcome::refused(is_kept, is_done(rt, images, ask));
    }
    Outcome::failed(ran.is_fault() && is_written && is_done(rt, images, &CHECK))
}

/// What a call on the image comes to that had that before.
fn outcome_of_call<H>(rt: &H, images: &mut MemImages, ask: &Ask<'_>, before: &Before) -> Outcome
where
    H: Files<File = File>
        + Net<Listener = TcpListener, Stream = TcpStream>
        + Threads
        + Wait
        + Clock
        + Sync
        + Alloc<A = Global>,
{
    match run(rt, images, ask) {
        Some(ran) => outcome(rt, images, ask, before, &ran),
        None => Outcome::Before,
    }
}

/// What a call on the image comes to.
pub(crate) fn outcome_of<H>(rt: &H, images: &mut MemImages, ask: &Ask<'_>) -> Outcome
where
    H: Files<File = File>
        + Net<Listener = TcpListener, Stream = TcpStream>
        + Threads
        + Wait
        + Clock
        + Sync
        + Alloc<A = Global>,
{
    match before_in(rt.alloc(), images) {
        Some(before) => outcome_of_call(rt, images, ask, &before),
        None => Outcome::Before,
    }
}

/// The same behind calls that make the image.
fn outcome_in<H>(rt: &H, images: &mut MemImages, made: &[Ask<'_>], ask: &Ask<'_>) -> Outcome
where
    H: Files<File = File>
        + Net<Listener = TcpListener, Stream = TcpStream>
        + Threads
        + Wait
        + Clock
        + Sync
        + Alloc<A = Global>,
{
    for call in made {
        if !is_done(rt, images, call) {
            return Outcome::Before;
        }
    }
    outcome_of(rt, images, ask)
}

/// The same where there are no images before.
fn outcome_once<H>(rt: &H, made: &[Ask<'_>], ask: &Ask<'_>) -> Outcome
where
    H: Files<File = File>
        + Net<Listener = TcpListener, Stream = TcpStream>
        + Threads
        + Wait
        + Clock
        + Sync
        + Alloc<A = Global>,
{
    outcome_in(rt, &mut MemImages::new(rt.alloc()), made, ask)
}

/// The same, tried again where memory was refused before the call.
pub(crate) fn outcome_behind<H>(rt: &H, made: &[Ask<'_>], ask: &Ask<'_>) -> Outcome
where
    H: Files<File = File>
        + Net<Listener = TcpListener, Stream = TcpStream>
        + Threads
        + Wait
        + Clock
        + Sync
        + Alloc<A = Global>,
{
    match outcome_once(rt, made, ask) {
        Outcome::Before => Outcome::before(outcome_once(rt, made, ask)),
        outcome => outcome,
    }
}
