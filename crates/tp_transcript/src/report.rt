//! The report of a player: a line for each mismatch and each file, and the counts of all.

use crate::step::{Printed, Step};
use std::alloc::{AllocError, Global};

/// The most bytes of a line that a mismatch prints, and the most of them before the first wrong one.
const MOST_BYTES: usize = 200;

const MOST_BEFORE: usize = 100;

/// The report of transcripts.
#[derive(Drop)]
pub struct Report {
    alloc: Global,
    pub text: Vec<u8>,
    files: u64,
    cases: u64,
    failed: u64,
    /// Commands that were compared.
    checks: u64,
}

/// Returns the place of the first byte in which two texts differ.
fn first_difference(expected: &[u8], got: &[u8]) -> Option<usize> {
    let len = expected.len().min(got.len());
    for place in 0..len {
        if expected[place] != got[place] {
            return Some(place);
        }
    }
    if expected.len() == got.len() {
        None
    } else {
        Some(len)
    }
}

/// Returns the beginning of the line that has this place, which is at most 100 bytes before it.
fn line_start(text: &[u8], place: usize) -> usize {
    let least = place.saturating_sub(MOST_BEFORE);
    let mut start = least;
    for at in least..place.min(text.len()) {
        if text[at] == b'\n' {
            start = at.saturating_add(1);
        }
    }
    start
}

/// Adds a byte as a reader can see it.
fn add_visible(out: &mut Vec<u8>, byte: u8) -> Result<(), AllocError> {
    match byte {
        b'\n' => out.extend_from_slice(b"\\n"),
        b' '..=b'~' => Ok(out.push(byte)?),
        _ => {
            out.extend_from_slice(b"\\x")?;
            out.push(hex_digit(byte / 16))?;
            Ok(out.push(hex_digit(byte % 16))?)
        }
    }
}

fn hex_digit(value: u8) -> u8 {
    match value % 16 {
        digit @ 0..=9 => b'0' + digit,
        digit => b'a' + (digit - 10),
    }
}

/// Adds a text from a place up to the end of a line, between quotation marks.
fn add_excerpt(out: &mut Vec<u8>, text: &[u8], from: usize) -> Result<(), AllocError> {
    out.push(b'"')?;
    for byte in text.get(from..).unwrap_or(&[]).iter().take(MOST_BYTES) {
        add_visible(out, *byte)?;
        if *byte == b'\n' {
            break;
        }
    }
    Ok(out.push(b'"')?)
}

impl Report {
    pub fn new(alloc: Global) -> Report {
        Report {
            alloc,
            text: Vec::new(alloc),
            files: 0,
            cases: 0,
            failed: 0,
            checks: 0,
        }
    }

    pub fn count_case(&mut self) {
        self.cases = self.cases.saturating_add(1);
    }

    /// Begins the line of a mismatch.
    fn begin(&mut self, file: &str, number: usize) -> Result<(), AllocError> {
        self.failed = self.failed.saturating_add(1);
        let head = format!(in self.alloc; "{file}:{number}: ")?;
        self.text.extend_from_slice(head.as_bytes())
    }

    /// Adds a line that has no meaning in a transcript, or a command that does not exist.
    pub fn fail_line(&mut self, file: &str, number: usize) -> Result<(), AllocError> {
        self.begin(file, number)?;
        self.text.extend_from_slice(b"not a line of a transcript\n")
    }

    /// Compares a stream. Returns whether it is right.
    fn compare_stream(
        &mut self,
        file: &str,
        number: usize,
        stream: &str,
        expected: &[u8],
        got: &[u8],
    ) -> Result<bool, AllocError> {
        let Some(place) = first_difference(expected, got) else {
            return Ok(true);
        };
        let from = line_start(expected, place);
        self.begin(file, number)?;
        let head = format!(in self.alloc; "{stream}, from byte {from}: expected ")?;
        self.text.extend_from_slice(head.as_bytes())?;
        add_excerpt(&mut self.text, expected, from)?;
        self.text.extend_from_slice(b", got ")?;
        add_excerpt(&mut self.text, got, from)?;
        self.text.push(b'\n')?;
        Ok(false)
    }

    fn compare_status(
        &mut self,
        file: &str,
        number: usize,
        expected: u64,
        got: u64,
    ) -> Result<bool, AllocError> {
        if expected == got {
            return Ok(true);
        }
        self.begin(file, number)?;
        let text = format!(in self.alloc; "exit status: expected {expected}, got {got}\n")?;
        self.text.extend_from_slice(text.as_bytes())?;
        Ok(false)
    }

    /// Compares what a command printed, and its status, with what it must print. Returns whether it is right.
    pub fn compare(
        &mut self,
        file: &str,
        step: &Step<'_>,
        printed: &Printed,
    ) -> Result<bool, AllocError> {
        self.checks = self.checks.saturating_add(1);
        let (number, expected) = (step.number, &step.expected);
        let is_output_right = self.compare_stream(
            file,
            number,
            "standard output",
            &expected.output,
            &printed.output,
        )?;
        let is_error_right = self.compare_stream(
            file,
            number,
            "standard error",
            &expected.errors,
            &printed.errors,
        )?;
        let is_status_right = self.compare_status(file, number, expected.status, printed.status)?;
        Ok(is_output_right && is_error_right && is_status_right)
    }

    /// Returns the cases and the commands so far.
    pub fn counts(&self) -> (u64, u64) {
        (self.cases, self.checks)
    }

    /// Adds the line of a file. `earlier`: the counts before the file. A file that checks nothing has failed.
    pub fn end_file(&mut self, file: &str, earlier: (u64, u64)) -> Result<(), AllocError> {
        self.files = self.files.saturating_add(1);
        let cases = self.cases.saturating_sub(earlier.0);
        let checks = self.checks.saturating_sub(earlier.1);
        if checks == 0 {
            self.failed = self.failed.saturating_add(1);
        }
        let text = format!(in self.alloc; "{file}: {cases} cases, {checks} checks\n")?;
        self.text.extend_from_slice(text.as_bytes())
    }

    /// Adds the counts of all files. Returns whether nothing failed and something was played.
    pub fn end(&mut self) -> Result<bool, AllocError> {
        let (files, cases, checks, failed) = (self.files, self.cases, self.checks, self.failed);
        let text = format!(in self.alloc;
            "{files} transcripts, {cases} cases, {checks} checks, {failed} failed\n"
        )?;
        self.text.extend_from_slice(text.as_bytes())?;
        Ok(failed == 0 && checks > 0)
    }
}
