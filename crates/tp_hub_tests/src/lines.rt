//! Lines over the hub, from a reader that gives little at once, and to a writer that takes little.

ghost use Rattle.std.specs.Prelude.{◌≡◌};

use nbd_session::Profile;
use std::alloc::Global;
use std::io;
use std::io::{ErrorKind, Read, Write};
use std::marker::Brand;
use std::test::Fail;
use tp_hub::{Desk, Hub, HubDesk};
use tp_lines::{Begins, Ended, Ends, LinesEnd, Piped, attend_lines, play_script, send_text};
use tp_shelf::blank_shelf;

/// How many lines are read.
const LINES: u64 = 2000;

/// So many empty lines, one a read, each of which is interrupted before.
#[derive(Drop)]
struct EmptyLines {
    left: u64,
    is_ready: bool,
}

impl EmptyLines {
    fn new() -> EmptyLines {
        EmptyLines {
            left: LINES,
            is_ready: false,
        }
    }
}

impl Read for EmptyLines {
    fn read(&mut self, buffer: &mut [u8]) -> io::Result<usize> {
        self.is_ready = !self.is_ready;
        if self.is_ready {
            return Err(io::Error::from(ErrorKind::Interrupted));
        }
        match buffer.first_mut() {
            Some(place) if self.left > 0 => {
                *place = b'\n';
                self.left -= 1;
                Ok(1)
            }
            _ => Ok(0),
        }
    }
}

/// A writer that takes eight bytes, one a write, and is interrupted before each.
#[derive(Drop)]
struct Drips {
    is_ready: bool,
    kept: [u8; 8],
    taken: usize,
    /// How many bytes were taken at the last flush.
    flushed: usize,
    /// Each flush fails.
    fails_to_flush: bool,
}

impl Drips {
    fn new(fails_to_flush: bool) -> Drips {
        Drips {
            is_ready: false,
            kept: [0; 8],
            taken: 0,
            flushed: 0,
            fails_to_flush,
        }
    }
}

impl Write for Drips {
    fn write(&mut self, bytes: &[u8]) -> io::Result<usize> {
        self.is_ready = !self.is_ready;
        if self.is_ready {
            return Err(io::Error::from(ErrorKind::Interrupted));
        }
        match (bytes.first(), self.kept.get_mut(self.taken)) {
            (Some(byte), Some(place)) => {
                *place = *byte;
                self.taken = self.taken.saturating_add(1);
                Ok(1)
            }
            _ => Ok(0),
        }
    }

    fn flush(&mut self) -> io::Result<()> {
        self.flushed = self.taken;
        if self.fails_to_flush {
            return Err(io::Error::from(ErrorKind::BrokenPipe));
        }
        Ok(())
    }
}

/// How a script is played from a reader to a writer.
fn play<'a, D: Desk, R: Read, W: Write, K: Begins>(
    alloc: Global,
    desk: &mut D,
    ends: Ends<'a, R, W>,
) -> (Ends<'a, R, W>, Ended)
    requires { K.opening ≡ record { reader = ends.input.ghost_name; writer = ends.output.ghost_name; left = R.remaining ends.input.now; told = W.contents ends.output.now } }
{
    let mut piped = Piped::<R, W, K>::begin(ends);
    let ended = play_script(alloc, desk, &Profile::Strict, &mut piped);
    (piped.end(), ended)
}

/// How control lines from it end.
fn attend<'a, D: Desk, R: Read, W: Write, K: Begins>(
    alloc: Global,
    desk: &mut D,
    ends: Ends<'a, R, W>,
) -> (Ends<'a, R, W>, LinesEnd)
    requires { K.opening ≡ record { reader = ends.input.ghost_name; writer = ends.output.ghost_name; left = R.remaining ends.input.now; told = W.contents ends.output.now } }
{
    let mut piped = Piped::<R, W, K>::begin(ends);
    let ending = attend_lines(alloc, desk, &mut piped);
    (piped.end(), ending)
}

/// The same over any reader and any writer.
fn play_all<D: Desk, R: Read, W: Write>(
    alloc: Global,
    desk: &mut D,
    input: &mut R,
    output: &mut W,
) -> Ended {
    let (_, ended) = play::<D, R, W, Brand>(alloc, desk, Ends { input, output });
    ended
}

/// The same of control lines.
fn attend_all<D: Desk, R: Read, W: Write>(
    alloc: Global,
    desk: &mut D,
    input: &mut R,
    output: &mut W,
) -> LinesEnd {
    let (_, ending) = attend::<D, R, W, Brand>(alloc, desk, Ends { input, output });
    ending
}

/// How many empty lines are played, how as many control lines end, and how one does whose answer is
/// written but not flushed.
fn read_all<D: Desk>(alloc: Global, desk: &mut D) -> (Ended, [LinesEnd; 2]) {
    let ended = play_all(alloc, desk, &mut EmptyLines::new(), &mut Drips::new(false));
    let ending = attend_all(alloc, desk, &mut EmptyLines::new(), &mut Drips::new(false));
    let mut line: &[u8] = b"flush\n";
    let unflushed = attend_all(alloc, desk, &mut line, &mut Drips::new(true));
    (ended, [ending, unflushed])
}

/// The same over a hub of two volumes.
fn read_all_alone(alloc: Global) -> Result<(Ended, [LinesEnd; 2]), Fail> {
    let mut hub = Hub::new(blank_shelf(alloc)?);
    let mut desk = HubDesk {
        alloc,
        hub: &mut hub,
    };
    let told = read_all(alloc, &mut desk);
    let HubDesk { alloc: _, hub: _ } = desk;
    let _ = hub.into_pool();
    Ok(told)
}

/// An interrupted read is made again. The end of a script ends its last line, so that is one line
/// more. A flush that fails is a failure of the output.
#[test]
fn any_number_of_reads(rt: HostRuntime) -> Result<(), Fail> {
    let told = read_all_alone(rt.alloc())?;
    let ended = Ended {
        result: Ok(()),
        played: LINES + 1,
    };
    let endings = [LinesEnd::EndOfInput, LinesEnd::OutputFailed];
    assert_eq!(rt; told, (ended, endings));
    Ok(())
}

/// Whether a writer is sent this, what it took, and how many bytes at the last flush.
fn sent_slowly(text: &[u8]) -> (bool, [u8; 8], usize) {
    let mut output = Drips::new(false);
    let is_sent = send_text(&mut EmptyLines::new(), &mut output, text);
    (is_sent, output.kept, output.flushed)
}

/// All bytes are written, and then flushed. A writer that takes no more has failed, and is not flushed.
#[test]
fn a_slow_writer_is_sent_all(rt: HostRuntime) {
    let told = [sent_slowly(b"ABCDEFGH"), sent_slowly(b"ABCDEFGHI")];
    assert_eq!(rt; told, [(true, *b"ABCDEFGH", 8), (false, *b"ABCDEFGH", 0)]);
}
