//! The steps of a transcript: commands with what they read and must print.

use crate::line::{Line, line_of};
use crate::messages::add_bytes;
use std::alloc::{AllocError, Global};
use tp_script::{cut_at, number_of};

/// What a command printed, and its exit status.
#[derive(Drop)]
pub struct Printed {
    pub output: Vec<u8>,
    pub errors: Vec<u8>,
    pub status: u64,
}

impl Printed {
    pub fn nothing(alloc: Global) -> Printed {
        Printed {
            output: Vec::new(alloc),
            errors: Vec::new(alloc),
            status: 0,
        }
    }
}

/// A command, or the heading of a case.
#[derive(Drop)]
pub struct Step<'a> {
    /// The number of its line.
    pub number: usize,
    /// The command, or `None` of a heading.
    pub command: Option<&'a [u8]>,
    pub input: Vec<u8>,
    pub expected: Printed,
}

impl<'a> Step<'a> {
    fn new(alloc: Global, number: usize, command: Option<&'a [u8]>) -> Step<'a> {
        Step {
            number,
            command,
            input: Vec::new(alloc),
            expected: Printed::nothing(alloc),
        }
    }

    /// Adds what a line after the command states. Returns whether it is such a line.
    fn add(&mut self, alloc: Global, line: Line<'_>) -> Result<bool, AllocError> {
        match line {
            Line::Input(text) => add_line(&mut self.input, text)?,
            Line::Output(text) => add_line(&mut self.expected.output, text)?,
            Line::Errors(text) => add_line(&mut self.expected.errors, text)?,
            Line::InputBytes(words) => return add_bytes(alloc, &mut self.input, words),
            Line::OutputBytes(words) => return add_bytes(alloc, &mut self.expected.output, words),
            Line::Exit(digits) => return Ok(self.set_status(digits)),
            _ => {}
        }
        Ok(true)
    }

    fn set_status(&mut self, digits: &[u8]) -> bool {
        match number_of(digits) {
            Some(status) => {
                self.expected.status = status;
                true
            }
            None => false,
        }
    }
}

/// Adds a line with the end of a line, which a `\` at its end takes away.
fn add_line(out: &mut Vec<u8>, text: &[u8]) -> Result<(), AllocError> {
    match text.strip_suffix(b"\\".as_slice()) {
        Some(text) => out.extend_from_slice(text),
        None => {
            out.extend_from_slice(text)?;
            Ok(out.push(b'\n')?)
        }
    }
}

/// Adds a line to the step that is the last so far. Returns whether it has a meaning there.
fn add_to_last(
    alloc: Global,
    steps: &mut Vec<Step<'_>>,
    line: Line<'_>,
) -> Result<bool, AllocError> {
    match steps.last_mut() {
        Some(step) => {
            if step.command.is_none() {
                return Ok(false);
            }
            step.add(alloc, line)
        }
        None => Ok(false),
    }
}

/// Adds a line of a transcript. Returns whether it is one.
fn add_step<'a>(
    alloc: Global,
    steps: &mut Vec<Step<'a>>,
    number: usize,
    line: Line<'a>,
) -> Result<bool, AllocError> {
    match line {
        Line::Nothing => {}
        Line::Case => steps.push(Step::new(alloc, number, None))?,
        Line::Command(text) => steps.push(Step::new(alloc, number, Some(text)))?,
        line => return add_to_last(alloc, steps, line),
    }
    Ok(true)
}

/// Reads the steps of a transcript, or returns the number of the first line that has no meaning.
pub fn steps_of(alloc: Global, text: &[u8]) -> Result<Result<Vec<Step<'_>>, usize>, AllocError> {
    let mut steps = Vec::new(alloc);
    let mut rest = text;
    for number in 1..text.len().saturating_add(2) {
        let (line, after) = cut_at(rest, b'\n');
        if !add_step(alloc, &mut steps, number, line_of(line))? {
            return Ok(Err(number));
        }
        match after {
            Some(after) => rest = after,
            None => break,
        }
    }
    Ok(Ok(steps))
}
