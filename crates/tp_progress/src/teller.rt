//! Progress of long work, as lines.

use crate::progress::Progress;
use std::io::Write;
use std::time::Clock;

/// The longest time between two lines, in seconds.
const LONGEST_PAUSE: u64 = 15;

/// Writes a line about long work: the bytes read and written so far.
///
/// The first line is written after 1 s, then each time the elapsed time has grown by 25 %, at least
/// 1 s and at most 15 s after the previous line.
#[derive(Drop)]
pub struct Teller<'c, C: Clock, W: Write + Drop> {
    clock: &'c C,
    lines: W,
    /// The second of the clock at which the work began; nothing where nobody reads the lines.
    began: Option<u64>,
    /// How many seconds behind that the next line is due.
    due: u64,
    read: u64,
    written: u64,
}

/// The second of a clock, where it goes.
fn second_of<C: Clock>(clock: &C) -> Option<u64> {
    match clock.monotonic() {
        Ok(now) => Some(now.as_secs()),
        Err(_) => None,
    }
}

impl<'c, C: Clock, W: Write + Drop> Teller<'c, C, W> {
    /// Starts the clock of work that begins now. If `is_read` is false, no line is written.
    pub fn new(clock: &'c C, lines: W, is_read: bool) -> Teller<'c, C, W> {
        let began = if is_read { second_of(clock) } else { None };
        Teller {
            clock,
            lines,
            began,
            due: 1,
            read: 0,
            written: 0,
        }
    }

    /// Writes a line if one is due.
    fn tell(&mut self) {
        let Some(began) = self.began else {
            return;
        };
        let Some(now) = second_of(self.clock) else {
            return;
        };
        let since = now.saturating_sub(began);
        if since < self.due {
            return;
        }
        self.due = since.saturating_add((since / 4).clamp(1, LONGEST_PAUSE));
        let (read, written) = (self.read >> 20, self.written >> 20);
        let _ = writeln!(
            self.lines,
            "thinpool: {read} MiB read and {written} MiB written in {since} s so far"
        );
    }
}

impl<'c, C: Clock, W: Write + Drop> Progress for Teller<'c, C, W> {
    fn read(&mut self, bytes: usize) {
        self.read = self.read.saturating_add(bytes as u64);
        self.tell();
    }

    fn written(&mut self, bytes: usize) {
        self.written = self.written.saturating_add(bytes as u64);
        self.tell();
    }
}
