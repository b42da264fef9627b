//! A test of a stream whose reader stops reading.

use std::io::{self, ErrorKind, Read, Write};
use std::rt::Files;
use std::test::Fail;
use std::time::{Clock, Duration, Instant};
use tp_program::Timed;

/// The reader is waited for so many milliseconds.
const PATIENCE: u16 = 1000;

/// Whether a write is given up at last, where nobody reads.
fn is_given_up<W: Write>(output: &mut W) -> bool {
    for _ in 0..1000 {
        if let Err(error) = output.write(&[0; 1000]) {
            return error.kind() == ErrorKind::TimedOut;
        }
    }
    false
}

/// Whether that takes as long as the reader is waited for.
fn is_waited_for<C: Clock, W: Write>(clock: &C, output: &mut W) -> io::Result<bool> {
    let start = Instant::now(clock)?;
    let is_given_up = is_given_up(output);
    Ok(is_given_up && start.elapsed(clock)? >= Duration::from_millis(1000))
}

/// Whether the next hundred are given up, which would be more than a minute if each waited.
fn are_given_up<W: Write>(output: &mut W) -> bool {
    for _ in 0..100 {
        if output.write(b"line").is_ok() {
            return false;
        }
    }
    true
}

/// Whether all that is so, and one goes on behind a read.
fn told_of_reader<C: Clock, R: Read, W: Write>(
    clock: &C,
    reader: &mut R,
    output: &mut W,
) -> io::Result<[bool; 3]> {
    let is_waited_for = is_waited_for(clock, output)?;
    let are_given_up = are_given_up(output);
    reader.read(&mut [0; 16_384])?;
    Ok([is_waited_for, are_given_up, output.write(b"line").is_ok()])
}

/// The same of a pipe of the system.
fn told_of_pipe<H: Files + Clock>(rt: &H) -> io::Result<[bool; 3]> {
    let (mut reader, writer) = io::pipe(rt)?;
    told_of_reader(rt, &mut reader, &mut Timed::new(writer, PATIENCE))
}

/// A write to a pipe that nobody reads is given up, and the next ones wait for nobody; and one goes on when the reader does.
#[test]
fn nobody_waits_long_for_a_reader(rt: HostRuntime) -> Result<(), Fail> {
    let told = told_of_pipe(&rt)?;
    assert_eq!(rt; told, [true; 3]);
    Ok(())
}
