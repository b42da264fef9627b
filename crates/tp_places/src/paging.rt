//! Where one volume of a pool that is served may differ from another: its server is asked page by page, by control lines.

ghost use Rattle.std.specs.Prelude.{◌+◌, ◌<◌, ◌≤◌, IfOk, IfSome};

use crate::asker::{read_some, refusal_in, refusal_of};
use crate::places::connect;
use std::alloc::Global;
use std::io::{self, ErrorKind, Write};
use std::net::{Net, TcpStream};
use tp_failures::{Cause, Failure};
use tp_hub::Stream;
use tp_listings::{Extent, add_run};
use tp_model::{DevId, Refusal};
use tp_texts::{write_delta, write_delta_json};

/// More bytes than a line has that is answered.
const LONGEST: usize = 512;

/// More pages than a listing has.
const MOST_PAGES: u32 = 16_777_216;

/// The bytes of a block at most.
const MOST_UNIT: u64 = 1_048_576;

/// How large a volume is: its blocks, and the bytes of each.
#[derive(Clone, Copy, Debug)]
struct VolumeSizes {
    blocks: u32,
    unit: u64,
}

/// What follows the runs of a page.
#[derive(Clone, Copy, Debug)]
enum PageEnd {
    /// There is no more.
    Last,
    /// The next page is asked for from this block on.
    Next(u32),
    /// It is no page.
    Nothing,
}

/// Reads the line that is answered, whose newline ends what is sent: how many bytes stand before it.
fn hear(connection: &mut TcpStream, line: &mut [u8]) -> io::Result<usize> {
    let mut len = 0usize;
    for _ in 0..LONGEST {
        let Some(rest) = line.get_mut(len..) else {
            return Err(io::Error::from(ErrorKind::InvalidData));
        };
        let count = read_some(connection, rest)?;
        if count == 0 {
            return Err(io::Error::from(ErrorKind::UnexpectedEof));
        }
        len = len.saturating_add(count);
        let last = len.saturating_sub(1);
        if line.get(last).copied() == Some(b'\n') {
            return Ok(last);
        }
    }
    Err(io::Error::from(ErrorKind::InvalidData))
}

/// Sends a line, which has its newline, and waits for its answer.
fn send_and_hear(connection: &mut TcpStream, request: &str, line: &mut [u8]) -> io::Result<usize> {
    connection.write_all(request.as_bytes())?;
    hear(connection, line)
}

/// Asks a line: how many bytes its answer has, or why it was refused.
fn ask(connection: &mut TcpStream, request: &str, line: &mut [u8]) -> Result<usize, Failure> {
    let len = match send_and_hear(connection, request, line) {
        Ok(len) => len,
        Err(error) => return Err(Failure::fault(Cause::Reach(error))),
    };
    match line.get(..len).and_then(refusal_in) {
        Some(number) => {
            Err(Failure {
                refusal: refusal_of(number),
                cause: Cause::Answered,
            })
        }
        None => Ok(len),
    }
}

/// The text of an answer, and none where it is no text.
fn text_of(line: &[u8], len: usize) -> &str {
    match line.get(..len) {
        Some(bytes) => std::str::from_utf8(bytes).unwrap_or(""),
        None => "",
    }
}

/// An answer that is none.
fn unanswered() -> Failure {
    Failure::fault(Cause::Unanswered(0))
}

/// A number of bytes as one of blocks of so many bytes, if there can be so many.
fn blocks_of(bytes: u64, unit: u64) -> Option<u32>
    requires { 0 < unit }
{
    u32::try_from(bytes / unit).ok()
}

/// The sizes that `SIZE BLOCK` tells, if they are those of a volume.
fn sizes_in(text: &str) -> Option<VolumeSizes>
    ensures { IfSome result (λ sizes. (0 < sizes.unit) × (sizes.unit ≤ 1048576)) }
{
    let (size, unit) = text.split_once(' ')?;
    let size = size.parse::<u64>().ok()?;
    let unit = unit.parse::<u64>().ok()?;
    if unit == 0 {
        return None;
    }
    if unit > MOST_UNIT {
        return None;
    }
    let blocks = blocks_of(size, unit)?;
    Some(VolumeSizes { blocks, unit })
}

/// The run that `OFFSET+LENGTH` tells, of blocks of so many bytes, if it is one.
fn run_in(text: &str, unit: u64) -> Option<Extent>
    requires { 0 < unit }
    ensures { IfSome result (λ run. run.first + run.blocks < 4294967296) }
{
    let (offset, length) = text.split_once('+')?;
    let offset = offset.parse::<u64>().ok()?;
    let length = length.parse::<u64>().ok()?;
    let first = blocks_of(offset, unit)?;
    let blocks = blocks_of(length, unit)?;
    let _end = first.checked_add(blocks)?;
    Some(Extent { first, blocks })
}

/// The block from which the next page is to be asked for, as a word tells it behind `next`.
fn next_in(number: Option<&str>) -> PageEnd {
    let Some(number) = number else {
        return PageEnd::Nothing;
    };
    match number.parse::<u32>() {
        Ok(block) => PageEnd::Next(block),
        Err(_) => PageEnd::Nothing,
    }
}

/// What this word tells that stands behind the runs of a page, with the one behind it.
fn behind_in(word: &str, number: Option<&str>) -> PageEnd {
    if word == "end" {
        return PageEnd::Last;
    }
    if word == "next" {
        return next_in(number);
    }
    PageEnd::Nothing
}

/// Adds the runs of a page to the others: what follows them.
fn add_page(extents: &mut Vec<Extent>, text: &str, unit: u64) -> Result<PageEnd, Refusal>
    requires { 0 < unit }
{
    let mut words = text.split(' ');
    for _ in 0..LONGEST {
        let Some(word) = words.next() else {
            return Ok(PageEnd::Nothing);
        };
        match run_in(word, unit) {
            Some(run) => add_run(extents, run)?,
            None => return Ok(behind_in(word, words.next())),
        }
    }
    Ok(PageEnd::Nothing)
}

/// Asks how large a volume is.
fn ask_size(connection: &mut TcpStream, alloc: Global, id: DevId) -> Result<VolumeSizes, Failure>
    ensures { IfOk result (λ sizes. (0 < sizes.unit) × (sizes.unit ≤ 1048576)) }
{
    let mut line = [0; LONGEST];
    let number = id.number();
    let Ok(request) = format!(in alloc; "size {number}\n") else {
        return Err(Failure::from(Refusal::Memory));
    };
    let len = ask(connection, &request, &mut line)?;
    match sizes_in(text_of(&line, len)) {
        Some(sizes) => Ok(sizes),
        None => Err(unanswered()),
    }
}

/// Asks for a page from a block on, and adds its runs to the others: what follows them.
fn ask_page(
    connection: &mut TcpStream,
    alloc: Global,
    old: DevId,
    new: DevId,
    from: u32,
    unit: u64,
    extents: &mut Vec<Extent>,
) -> Result<PageEnd, Failure>
    requires { 0 < unit }
{
    let mut line = [0; LONGEST];
    let (one, other) = (old.number(), new.number());
    let Ok(request) = format!(in alloc; "delta {one} {other} {from}\n") else {
        return Err(Failure::from(Refusal::Memory));
    };
    let len = ask(connection, &request, &mut line)?;
    match add_page(extents, text_of(&line, len), unit) {
        Ok(behind) => Ok(behind),
        Err(reason) => Err(Failure::from(reason)),
    }
}

/// Asks for all pages, and adds their runs, one behind the other.
fn ask_pages(
    connection: &mut TcpStream,
    alloc: Global,
    old: DevId,
    new: DevId,
    unit: u64,
    extents: &mut Vec<Extent>,
) -> Result<(), Failure>
    requires { 0 < unit }
{
    let mut from = 0;
    for _ in 0..MOST_PAGES {
        match ask_page(connection, alloc, old, new, from, unit, extents)? {
            PageEnd::Last => return Ok(()),
            PageEnd::Next(block) => {
                if block <= from {
                    return Err(unanswered());
                }
                from = block;
            }
            PageEnd::Nothing => return Err(unanswered()),
        }
    }
    Err(unanswered())
}

/// Prints the runs of a delta, and the holes between them.
fn print_pages<S: Stream>(
    stream: &mut S,
    is_json: bool,
    sizes: VolumeSizes,
    extents: &[Extent],
) -> Result<(), Failure>
    requires { sizes.unit ≤ 1048576 }
{
    let is_told = if is_json {
        write_delta_json(stream, sizes.unit, sizes.blocks, extents)
    } else {
        write_delta(stream, sizes.unit, sizes.blocks, extents)
    };
    if is_told {
        Ok(())
    } else {
        Err(Failure::fault(Cause::Output))
    }
}

/// The same over a connection.
fn delta_over<S: Stream>(
    connection: &mut TcpStream,
    alloc: Global,
    old: DevId,
    new: DevId,
    is_json: bool,
    stream: &mut S,
) -> Result<(), Failure> {
    let sizes = ask_size(connection, alloc, new)?;
    let mut extents = Vec::new(alloc);
    ask_pages(connection, alloc, old, new, sizes.unit, &mut extents)?;
    print_pages(stream, is_json, sizes, &extents)
}

/// Asks the server of a control place where one volume may differ from another, page by page, and prints that as a listing of its image is printed. What is printed is
/// right of volumes that nobody writes meanwhile. It is refused where the place cannot be reached, where a line is, or where what is answered is no page.
pub fn delta_at<R, S>(
    net: &R,
    alloc: Global,
    place: &str,
    old: u64,
    new: u64,
    is_json: bool,
    stream: &mut S,
) -> Result<(), Failure>
where
    R: Net<Stream = TcpStream>,
    S: Stream,
{
    let Ok(one) = DevId::checked(old) else {
        return Err(Failure::from(Refusal::BadDeviceId));
    };
    let Ok(other) = DevId::checked(new) else {
        return Err(Failure::from(Refusal::BadDeviceId));
    };
    match connect(net, place) {
        Ok(mut connection) => delta_over(&mut connection, alloc, one, other, is_json, stream),
        Err(error) => Err(Failure::fault(Cause::Reach(error))),
    }
}
