//! What the tests share: what a client of NBD sends and is sent, and runs of the program over words.

use std::alloc::{AllocError, Global};
use std::fs::{File, remove_file};
use std::io::{self, Read, Write};
use std::net::{Net, TcpListener, TcpStream};
use std::rt::Files;
use std::sync::Wait;
use std::test::Fail;
use std::thread::Threads;
use std::time::Clock;
use tp_images::{FileImages, Images};
use tp_program::{Status, Terminals, program};

/// What is said of a task that the system refuses.
pub(crate) const FAULT: &[u8] = b"thinpool: 5 Fault\n";

pub(crate) const GREETING: &[u8] = b"NBDMAGICIHAVEOPT\x00\x03";

/// The client flags, and GO of the volume 0.
pub(crate) const CLIENT_GO: &[u8] =
    b"\x00\x00\x00\x03IHAVEOPT\x00\x00\x00\x07\x00\x00\x00\x07\x00\x00\x00\x010\x00\x00";

/// INFO_EXPORT, INFO_BLOCK_SIZE and ACK.
pub(crate) const GO_REPLIES: &[u8] =
    b"\x00\x03\xe8\x89\x04\x55\x65\xa9\x00\x00\x00\x07\x00\x00\x00\x03\x00\x00\x00\x0c\x00\x00\x00\x00\x00\x00\x00\x10\x00\x00\x00\x6d\x00\x03\xe8\x89\x04\x55\x65\xa9\x00\x00\x00\x07\x00\x00\x00\x03\x00\x00\x00\x0e\x00\x03\x00\x00\x02\x00\x00\x00\x10\x00\x00\x10\x00\x00\x00\x03\xe8\x89\x04\x55\x65\xa9\x00\x00\x00\x07\x00\x00\x00\x01\x00\x00\x00\x00";

/// A part of what a client sends or is sent.
#[derive(Clone, Copy)]
pub(crate) enum Part<'a> {
    /// These bytes.
    Text(&'a [u8]),
    /// So many bytes of this value.
    Fill(u8, usize),
    /// A request without a payload: its type, cookie, offset and length.
    Ask(u16, u64, u64, u32),
    /// A simple reply without data: its error and cookie.
    Reply(u32, u64),
}

/// These parts, one behind the other.
pub(crate) fn joined(alloc: Global, parts: &[Part<'_>]) -> Result<Vec<u8>, AllocError> {
    let mut text = Vec::new(alloc);
    for part in parts {
        add(&mut text, *part)?;
    }
    Ok(text)
}

/// Adds a part.
pub(crate) fn add(text: &mut Vec<u8>, part: Part<'_>) -> Result<(), AllocError> {
    match part {
        Part::Text(bytes) => text.extend_from_slice(bytes),
        Part::Fill(byte, count) => repeat(text, byte, count),
        Part::Ask(kind, cookie, offset, len) => ask(text, kind, cookie, offset, len),
        Part::Reply(error, cookie) => reply(text, error, cookie),
    }
}

/// Adds a request: its type, cookie, offset and length.
fn ask(
    text: &mut Vec<u8>,
    kind: u16,
    cookie: u64,
    offset: u64,
    len: u32,
) -> Result<(), AllocError> {
    text.extend_from_slice(b"\x25\x60\x95\x13\x00\x00")?;
    text.extend_from_slice(&kind.to_be_bytes())?;
    text.extend_from_slice(&cookie.to_be_bytes())?;
    text.extend_from_slice(&offset.to_be_bytes())?;
    text.extend_from_slice(&len.to_be_bytes())
}

/// Adds a simple reply without data.
fn reply(text: &mut Vec<u8>, error: u32, cookie: u64) -> Result<(), AllocError> {
    text.extend_from_slice(b"\x67\x44\x66\x98")?;
    text.extend_from_slice(&error.to_be_bytes())?;
    text.extend_from_slice(&cookie.to_be_bytes())
}

/// Adds so many bytes of this value.
fn repeat(text: &mut Vec<u8>, byte: u8, count: usize) -> Result<(), AllocError> {
    let more = Vec::from_elem(text.allocator().clone()?, byte, count)?;
    text.extend_from_slice(&more)
}

/// What is sent up to the requests.
pub(crate) fn greeted(alloc: Global) -> Result<Vec<u8>, AllocError> {
    joined(alloc, &[Part::Text(GREETING), Part::Text(GO_REPLIES)])
}

/// What a program wrote, and how it ended.
#[derive(Drop)]
pub(crate) struct Ran {
    pub status: Status,
    pub output: Vec<u8>,
    pub errors: Vec<u8>,
}

/// No standard stream is a terminal.
pub(crate) const NO_TERMINAL: Terminals = Terminals {
    input: false,
    errors: false,
};

/// Runs the program over these words and this input.
pub(crate) fn run<H, R: Read>(rt: &H, words: &[&str], input: &mut R) -> Ran
where
    H: Files<File = File>
        + Net<Listener = TcpListener, Stream = TcpStream>
        + Threads
        + Wait
        + Clock
        + Sync
        + Alloc<A = Global>,
{
    run_on(rt, words, NO_TERMINAL, input)
}

/// The same where these standard streams are terminals.
pub(crate) fn run_on<H, R: Read>(rt: &H, words: &[&str], terminals: Terminals, input: &mut R) -> Ran
where
    H: Files<File = File>
        + Net<Listener = TcpListener, Stream = TcpStream>
        + Threads
        + Wait
        + Clock
        + Sync
        + Alloc<A = Global>,
{
    run_in(rt, &mut FileImages::new(rt), words, terminals, input)
}

/// The same over these images.
pub(crate) fn run_in<H, I: Images, R: Read>(
    rt: &H,
    images: &mut I,
    words: &[&str],
    terminals: Terminals,
    input: &mut R,
) -> Ran
where
    H: Files<File = File>
        + Net<Listener = TcpListener, Stream = TcpStream>
        + Threads
        + Wait
        + Clock
        + Sync
        + Alloc<A = Global>,
{
    let mut output = Vec::new(rt.alloc());
    let mut errors = Vec::new(rt.alloc());
    let status = program(
        rt,
        images,
        rt.alloc(),
        words,
        terminals,
        (),
        input,
        &mut output,
        &mut errors,
    );
    Ran {
        status,
        output,
        errors,
    }
}

/// Whether the program is done with a client who sends this, sent it this, and said nothing.
pub(crate) fn is_sent<H, R: Read>(
    rt: &H,
    words: &[&str],
    input: &mut R,
    wanted: &[Part<'_>],
) -> Result<bool, AllocError>
where
    H: Files<File = File>
        + Net<Listener = TcpListener, Stream = TcpStream>
        + Threads
        + Wait
        + Clock
        + Sync
        + Alloc<A = Global>,
{
    let wanted = joined(rt.alloc(), wanted)?;
    Ok(is_done(&run(rt, words, input), &wanted))
}

/// The same of a client whose text is made of parts.
pub(crate) fn is_answered<H>(
    rt: &H,
    words: &[&str],
    text: &[Part<'_>],
    wanted: &[Part<'_>],
) -> Result<bool, AllocError>
where
    H: Files<File = File>
        + Net<Listener = TcpListener, Stream = TcpStream>
        + Threads
        + Wait
        + Clock
        + Sync
        + Alloc<A = Global>,
{
    let text = joined(rt.alloc(), text)?;
    is_sent(rt, words, &mut text.as_slice(), wanted)
}

/// A call on an image: the command, what stands behind the image, the exit status, and all that is printed: on standard output where the
/// status is 0, and else on standard error.
pub(crate) type Call = (&'static str, &'static [&'static str], u8, &'static str);

/// An image of a pool of four data blocks, with the empty volume 0.
pub(crate) const MADE: &[Call] = &[
    (
        "format",
        &["128", "16", "2048", "4"],
        0,
        "0 9/2048 0/4 - rw no_discard_passdown error_if_no_space - 512\n",
    ),
    ("message", &["create_thin 0"], 0, "ok\n"),
];

/// A pool of an image is checked, and found clean.
pub(crate) const CLEAN: &[Call] = &[("check", &[], 0, "clean\n")];

/// A client is fed that is offered what `serve` offers.
pub(crate) const STRICT: Call = ("feed", &[], 0, "");

/// Adds the words of a call on this image.
fn add_words<'a>(words: &mut Vec<&'a str>, image: &'a str, call: &Call) -> Result<(), AllocError> {
    words.push("thinpool")?;
    words.push(call.0)?;
    words.push(image)?;
    for word in call.1 {
        words.push(*word)?;
    }
    Ok(())
}

/// These words.
pub(crate) fn words_of<'a>(
    alloc: Global,
    image: &'a str,
    call: &Call,
) -> Result<Vec<&'a str>, AllocError> {
    let mut words = Vec::new(alloc);
    add_words(&mut words, image, call)?;
    Ok(words)
}

/// Whether this text is all that a program printed.
fn is_printed(ran: &Ran, text: &str) -> bool {
    if ran.status.code() == 0 {
        ran.errors.is_empty() && ran.output.as_slice() == text.as_bytes()
    } else {
        ran.output.is_empty() && ran.errors.as_slice() == text.as_bytes()
    }
}

/// Whether a call ended and printed so.
pub(crate) fn is_ended(ran: &Ran, call: &Call) -> bool {
    ran.status.code() == call.2 && is_printed(ran, call.3)
}

/// Whether all was done, and this is all that was printed.
pub(crate) fn is_done(ran: &Ran, output: &[u8]) -> bool {
    ran.status == Status::Done && ran.output.as_slice() == output && ran.errors.is_empty()
}

/// How the program ends with these words and this input that prints into this, and whether it says that the system refused it.
pub(crate) fn told_into<H, W: Write>(
    rt: &H,
    words: &[&str],
    input: &[u8],
    output: &mut W,
) -> (Status, bool)
where
    H: Files<File = File>
        + Net<Listener = TcpListener, Stream = TcpStream>
        + Threads
        + Wait
        + Clock
        + Sync
        + Alloc<A = Global>,
{
    let mut input = input;
    let mut errors = Vec::new(rt.alloc());
    let status = program(
        rt,
        &mut FileImages::new(rt),
        rt.alloc(),
        words,
        NO_TERMINAL,
        (),
        &mut input,
        output,
        &mut errors,
    );
    (status, errors.as_slice() == FAULT)
}

/// The same where nobody reads what it prints.
pub(crate) fn told_of_unread<H>(
    rt: &H,
    words: &[&str],
    input: &[u8],
) -> Result<(Status, bool), Fail>
where
    H: Files<File = File>
        + Net<Listener = TcpListener, Stream = TcpStream>
        + Threads
        + Wait
        + Clock
        + Sync
        + Alloc<A = Global>,
{
    let (reader, mut output) = io::pipe(rt)?;
    drop(reader);
    Ok(told_into(rt, words, input, &mut output))
}

/// Whether a call on this image ends and prints so.
pub(crate) fn is_told<H>(rt: &H, image: &str, call: &Call) -> Result<bool, Fail>
where
    H: Files<File = File>
        + Net<Listener = TcpListener, Stream = TcpStream>
        + Threads
        + Wait
        + Clock
        + Sync
        + Alloc<A = Global>,
{
    let words = words_of(rt.alloc(), image, call)?;
    let mut input: &[u8] = b"";
    Ok(is_ended(&run(rt, &words, &mut input), call))
}

/// The first of these calls, one behind the other, that does not end and print so.
pub(crate) fn first_untold<H>(rt: &H, image: &str, calls: &[Call]) -> Result<Option<usize>, Fail>
where
    H: Files<File = File>
        + Net<Listener = TcpListener, Stream = TcpStream>
        + Threads
        + Wait
        + Clock
        + Sync
        + Alloc<A = Global>,
{
    for (i, call) in calls.iter().enumerate() {
        if !is_told(rt, image, call)? {
            return Ok(Some(i));
        }
    }
    Ok(None)
}

/// The same of an image that is removed behind them.
pub(crate) fn first_untold_of_new<H>(
    rt: &H,
    image: &str,
    calls: &[Call],
) -> Result<Option<usize>, Fail>
where
    H: Files<File = File>
        + Net<Listener = TcpListener, Stream = TcpStream>
        + Threads
        + Wait
        + Clock
        + Sync
        + Alloc<A = Global>,
{
    let untold = first_untold(rt, image, calls)?;
    remove_file(rt, image)?;
    Ok(untold)
}
