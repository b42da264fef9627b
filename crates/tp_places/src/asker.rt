//! Lines that are sent to the control place of a server, and their answers.

ghost use Rattle.std.specs.Prelude.{◌≡◌};
ghost use Rattle.std.specs.Io.{ReadsAtMost};
ghost use Rattle.tp_model.specs.Refusals.{refusal_number};
ghost use Rattle.tp_places.specs.Answered.{all_refusals, numbered};

use crate::places::connect;
use std::io::{self, ErrorKind, Read, Write};
use std::net::{Net, Shutdown, TcpStream};
use tp_failures::{Cause, Failure};
use tp_hub::{Stream, send_all};
use tp_model::Refusal;
use tp_words::Texts;

/// The most bytes of one read.
const PIECE: usize = 4096;

/// What a line begins with by which a line is refused.
const REFUSED: &str = "refused ";

/// What tells that the pool has failed.
const FAILED: &[u8] = b"failed";

/// What a line begins with that tells that the device does not answer.
const STALLED: &[u8] = b"stalled ";

/// All refusals.
const REFUSALS: [Refusal; 31] = [
    Refusal::BadGeometry,
    Refusal::Damaged,
    Refusal::NotAPool,
    Refusal::BadVersion,
    Refusal::Fault,
    Refusal::Memory,
    Refusal::BadSyntax,
    Refusal::UnknownMessage,
    Refusal::BadDeviceId,
    Refusal::Exists,
    Refusal::NoSuchDevice,
    Refusal::Busy,
    Refusal::StaleTransactionId,
    Refusal::NoMetadataSpace,
    Refusal::TooManyDevices,
    Refusal::ReadOnly,
    Refusal::Failed,
    Refusal::SessionInUse,
    Refusal::NoSession,
    Refusal::NoDataSpace,
    Refusal::BadSize,
    Refusal::HeldRootExists,
    Refusal::NoHeldRoot,
    Refusal::BadSuper,
    Refusal::BadNode,
    Refusal::BadOrder,
    Refusal::BadCount,
    Refusal::OutOfPlace,
    Refusal::HalfEmpty,
    Refusal::BadMapped,
    Refusal::BadRecordSize,
];

/// So many bytes of a line of an answer are kept, which a refusal's has not.
const LONGEST: usize = 32;

/// What was answered so far: how many whole lines, the number of the first refusal among them, and
/// why the server is not well, if a line tells that it is not.
#[derive(Clone, Copy, Debug)]
struct Heard {
    lines: u64,
    refused: Option<u8>,
    unwell: Option<Refusal>,
    /// The front of the line that has begun, and how many bytes of it have come.
    line: [u8; LONGEST],
    len: usize,
}

/// The number by which a line says that it is refused, if it does.
pub(crate) fn refusal_in(line: &[u8]) -> Option<u8> {
    let number = std::str::from_utf8(line).ok()?.strip_prefix(REFUSED)?;
    number.parse::<u8>().ok()
}

/// Why the server is not well, if a line tells that it is not.
fn illness_in(line: &[u8]) -> Option<Refusal> {
    if line == FAILED {
        return Some(Refusal::Failed);
    }
    if line.starts_with(STALLED) {
        return Some(Refusal::Busy);
    }
    None
}

impl Heard {
    /// Nothing was answered yet.
    fn nothing() -> Heard {
        Heard {
            lines: 0,
            refused: None,
            unwell: None,
            line: [0; LONGEST],
            len: 0,
        }
    }

    /// One byte more of the answers.
    fn hear(&mut self, byte: u8) {
        if byte == b'\n' {
            self.end_line();
            return;
        }
        if let Some(place) = self.line.get_mut(self.len) {
            *place = byte;
        }
        self.len = self.len.saturating_add(1);
    }

    /// A line is whole. One that is longer than what is kept of it is no refusal.
    fn end_line(&mut self) {
        if self.refused.is_none() {
            self.refused = self.line.get(..self.len).and_then(refusal_in);
        }
        if self.unwell.is_none() {
            self.unwell = self.line.get(..self.len).and_then(illness_in);
        }
        self.lines = self.lines.saturating_add(1);
        self.len = 0;
    }
}

/// How many answers lines have: one for each that is not empty.
fn answers_of(text: &str) -> u64 {
    let mut count = 0u64;
    for line in text.split('\n') {
        if !line.is_empty() {
            count = count.saturating_add(1);
        }
    }
    count
}

/// Sends a text as lines, if there is one, and tells how many answers it has.
fn send(connection: &mut TcpStream, text: Option<&str>) -> io::Result<u64> {
    let Some(text) = text else {
        return Ok(0);
    };
    connection.write_all(text.as_bytes())?;
    connection.write_all(b"\n")?;
    Ok(answers_of(text))
}

/// Sends all lines, and then that there are no more: how many answers they have.
fn send_lines(connection: &mut TcpStream, lines: &Texts<'_>) -> io::Result<u64> {
    let mut count = send(connection, Some(lines.first))?;
    for line in [lines.second, lines.third, lines.fourth] {
        count = count.saturating_add(send(connection, line)?);
    }
    connection.shutdown(Shutdown::Write)?;
    Ok(count)
}

/// Reads some bytes to the front of a buffer: none at the end.
pub(crate) fn read_some<T: Read>(connection: &mut T, piece: &mut [u8]) -> io::Result<usize>
    ensures { ReadsAtMost result piece.new }
{
    for _ in 0..u64::MAX {
        match connection.read(piece) {
            Err(error) if error.kind() == ErrorKind::Interrupted => {}
            other => return other,
        }
    }
    Ok(0)
}

/// Passes on what is answered, up to its end.
fn hear_all<S: Stream>(connection: &mut TcpStream, stream: &mut S) -> Result<Heard, Failure> {
    let mut heard = Heard::nothing();
    let mut piece = [0; PIECE];
    for _ in 0..u64::MAX {
        let count = match read_some(connection, &mut piece) {
            Ok(count) => count,
            Err(error) => return Err(Failure::fault(Cause::Reach(error))),
        };
        let Some(bytes) = piece.get(..count) else {
            return Ok(heard);
        };
        if bytes.is_empty() {
            return Ok(heard);
        }
        if !send_all(stream, bytes) {
            return Err(Failure::fault(Cause::Output));
        }
        for byte in bytes {
            heard.hear(*byte);
        }
    }
    Ok(heard)
}

/// The first of some refusals that has a number; a fault where none has it.
fn numbered_in(refusals: &[Refusal], number: u8) -> Refusal
    ensures { result ≡ numbered refusals.now number }
{
    for refusal in refusals {
        if refusal.number() == number {
            return *refusal;
        }
    }
    Refusal::Fault
}

/// The refusal of a number: a fault where none has it.
pub(crate) fn refusal_of(number: u8) -> Refusal
    ensures found { (refusal : Refusal) → refusal_number refusal ≡ number → result ≡ refusal }
    ensures table { result ≡ numbered all_refusals number }
{
    numbered_in(&REFUSALS, number)
}

/// Whether all was answered, nothing refused, and the server is well.
fn told(heard: &Heard, wanted: u64) -> Result<(), Failure> {
    if let Some(number) = heard.refused {
        return Err(Failure {
            refusal: refusal_of(number),
            cause: Cause::Answered,
        });
    }
    if heard.lines < wanted {
        return Err(Failure::fault(Cause::Unanswered(heard.lines)));
    }
    if let Some(refusal) = heard.unwell {
        return Err(Failure {
            refusal,
            cause: Cause::Unwell,
        });
    }
    Ok(())
}

/// Whether `stop now` came as two lines, since it was not quoted.
fn is_unquoted(lines: &Texts<'_>) -> bool {
    let pairs = [
        (Some(lines.first), lines.second),
        (lines.second, lines.third),
        (lines.third, lines.fourth),
    ];
    pairs.contains(&(Some("stop"), Some("now")))
}

/// Sends lines to a place, and writes what is answered until the other side ends it. It is refused where the place cannot be reached, where a line is, with the first of
/// these refusals, where fewer lines were answered than were sent, or where one tells that the server is not well. Where the lines `stop` and `now` follow each other, nothing is sent: `BadSyntax`.
pub fn ask_place<R, S>(
    net: &R,
    place: &str,
    lines: &Texts<'_>,
    stream: &mut S,
) -> Result<(), Failure>
where
    R: Net<Stream = TcpStream>,
    S: Stream,
{
    if is_unquoted(lines) {
        return Err(Failure {
            refusal: Refusal::BadSyntax,
            cause: Cause::Unquoted,
        });
    }
    let mut connection = match connect(net, place) {
        Ok(connection) => connection,
        Err(error) => return Err(Failure::fault(Cause::Reach(error))),
    };
    let wanted = match send_lines(&mut connection, lines) {
        Ok(wanted) => wanted,
        Err(error) => return Err(Failure::fault(Cause::Reach(error))),
    };
    let heard = hear_all(&mut connection, stream)?;
    told(&heard, wanted)
}
