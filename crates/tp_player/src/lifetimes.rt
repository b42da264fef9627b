//! A lifetime of a pool, from its opening to its close or to a crash, in which disk calls may fail.

use crate::disk::ScriptDisk;
use crate::play::{add_with_number, is_expected};
use crate::server::{CONNECTIONS, Connection};
use crate::stage::Stage;
use crate::world::{Faults, NO_CALLS, World};
use std::alloc::{AllocError, Global};
use tp_reference::{History, Reference};
use tp_script::{Answer, Block, Buffer, CrashImage, Disk, Line, Verb, line_at};
use tp_served::Room;

/// The disk of a closed pool, and the state of the reference model.
#[derive(Drop)]
pub(crate) struct Kept {
    pub disk: Box<ScriptDisk>,
    pub reference: Reference,
    pub border: u64,
    pub room: Room,
}

/// How a lifetime ended.
#[derive(Drop)]
pub(crate) struct Ending {
    /// How many lines had an answer that the reference model does not allow; what it requires of
    /// the first of them, and the line's number.
    pub wrong: u64,
    pub why: Buffer,
    pub line: usize,
    /// The line in which a disk call failed first.
    pub failed_in: usize,
}

impl Ending {
    fn new(alloc: Global) -> Ending {
        Ending {
            wrong: 0,
            why: Buffer::new(alloc),
            line: 0,
            failed_in: 0,
        }
    }

    /// Notes the line that was played last.
    fn note(&mut self, world: &mut World, line: usize) {
        let first = world.failing.0;
        if self.failed_in == 0 && first > 0 && world.calls_now() >= first {
            self.failed_in = line;
        }
        if world.mismatch.is_empty() {
            return;
        }
        self.wrong = self.wrong.saturating_add(1);
        if self.line == 0 {
            self.line = line;
            self.why.add(world.mismatch.as_slice());
        }
        world.mismatch.clear();
    }
}

/// How a lifetime is played.
#[derive(Clone, Copy)]
pub(crate) struct Course {
    /// The number of the first call that fails, counted from the end of the opening; 0 if none
    /// does.
    pub call: u64,
    /// The disk calls that fail.
    pub failing: (u64, u64),
    /// Whether the pool is closed at the end.
    pub closes: bool,
    /// Whether the lines must have the answers that the script requires. If calls fail, or on an
    /// image, only the reference model decides.
    pub is_exact: bool,
}

impl World {
    /// Becomes a world without a disk that has the reference model and the sizes of another one.
    pub(crate) fn begin_as(&mut self, other: &World) -> Result<(), AllocError> {
        self.room = other.room;
        self.border = other.border;
        self.stage = Stage::Empty;
        self.history = match &other.history {
            Some(history) => Some(history.copy()?),
            None => None,
        };
        Ok(())
    }

    /// Becomes a world without a disk that has the sizes of another one, and no reference model.
    pub(crate) fn begin_without_reference(&mut self, other: &World) {
        self.room = other.room;
        self.border = other.border;
        self.history = None;
    }

    /// Returns the disk that a crash leaves now, with this state of the reference model.
    pub(crate) fn keep(
        &self,
        image: CrashImage,
        reference: Reference,
    ) -> Result<Option<Box<Kept>>, AllocError> {
        let Some(disk) = self.left(image)? else {
            return Ok(None);
        };
        let kept = Kept {
            disk,
            reference,
            border: self.border,
            room: self.room,
        };
        Ok(Some(Box::new(self.alloc, kept)?))
    }

    /// Becomes the world of a closed pool.
    fn begin_on(&mut self, kept: &Kept, failing: (u64, u64)) -> Result<(), AllocError> {
        self.clear();
        self.room = kept.room;
        self.border = kept.border;
        self.has_failed = false;
        self.connections = [Connection::CLOSED; CONNECTIONS];
        self.failing = failing;
        self.is_in_matrix = true;
        self.faults = Faults::NONE;
        self.history = Some(History::only(self.alloc, kept.reference.copy()?)?);
        self.stage = Stage::Disk(kept.disk.left(self.alloc, CrashImage::Newest)?);
        Ok(())
    }

    /// Plays a line of a lifetime.
    fn live_line(
        &mut self,
        line: &Line<'_>,
        is_exact: bool,
        ending: &mut Ending,
    ) -> Result<(), AllocError> {
        let mut text = Buffer::new(self.alloc);
        let answer = self.play_spelled(line, &mut text)?;
        if answer == Answer::Strange || is_exact && !is_expected(line, answer, text.as_slice()) {
            self.note(b"another answer than ");
            self.mismatch.add(text.as_slice());
        }
        ending.note(self, line.number);
        self.clear();
        if answer != Answer::Misplaced {
            self.report_status();
        }
        ending.note(self, line.number);
        self.whole()
    }

    /// Plays the line that a `repeat` of a lifetime has for one number.
    fn live_repeated(
        &mut self,
        line: &Line<'_>,
        text: &[u8],
        is_exact: bool,
        ending: &mut Ending,
    ) -> Result<(), AllocError> {
        match line_at(line.number, text) {
            Some(line) => self.live_line(&line, is_exact, ending),
            None => {
                self.note(b"a line of a script");
                Ok(())
            }
        }
    }

    /// Plays a line of a lifetime, or all that it stands for.
    fn live_lines(
        &mut self,
        line: &Line<'_>,
        is_exact: bool,
        ending: &mut Ending,
    ) -> Result<(), AllocError> {
        let Verb::Block(Block::Repeat(first, last, text)) = line.verb else {
            return self.live_line(line, is_exact, ending);
        };
        let mut one = Buffer::new(self.alloc);
        for number in first..last.saturating_add(1) {
            one.clear();
            add_with_number(&mut one, text, number);
            self.live_repeated(line, one.as_slice(), is_exact, ending)?;
        }
        Ok(())
    }

    /// Plays the lines of a lifetime.
    fn live_all(
        &mut self,
        lines: &[Line<'_>],
        is_exact: bool,
        ending: &mut Ending,
    ) -> Result<(), AllocError> {
        for line in lines {
            self.live_lines(line, is_exact, ending)?;
        }
        Ok(())
    }

    /// Ends a lifetime by a close.
    fn live_to_close(&mut self, lines: &[Line<'_>], ending: &mut Ending) {
        self.clear();
        self.close();
        let last = match lines.last() {
            Some(line) => line.number,
            None => 0,
        };
        ending.note(self, last);
    }

    /// Plays a lifetime on a copy of a closed pool. Unless its first line is on the closed pool,
    /// the pool is opened first.
    #[inline(never)]
    pub(crate) fn live(
        &mut self,
        kept: &Kept,
        lines: &[Line<'_>],
        course: Course,
    ) -> Result<Ending, AllocError> {
        let mut ending = Ending::new(self.alloc);
        self.begin_on(kept, course.failing)?;
        if !begins_closed(lines) {
            self.open(false)?;
        }
        self.live_all(lines, course.is_exact, &mut ending)?;
        if course.closes {
            self.live_to_close(lines, &mut ending);
        }
        Ok(ending)
    }

    /// Returns the disk calls of the opening of a closed pool.
    pub(crate) fn calls_of_opening(&mut self, kept: &Kept) -> Result<u64, AllocError> {
        self.begin_on(kept, NO_CALLS)?;
        self.open(false)?;
        Ok(self.calls_now())
    }

    /// Returns the checksum of the disk that a crash leaves now.
    pub(crate) fn checksum(&self, image: CrashImage) -> Result<Option<u64>, AllocError> {
        match self.disk() {
            Some(disk) => Ok(Some(disk.checksum(image)?)),
            None => Ok(None),
        }
    }
}

/// Returns whether a lifetime begins with a call on the closed pool.
pub(crate) fn begins_closed(lines: &[Line<'_>]) -> bool {
    match lines.first() {
        Some(line) => matches!(
            line.verb,
            Verb::Disk(Disk::Format(_) | Disk::ClearNeedsCheck | Disk::Open | Disk::OpenReadOnly)
        ),
        None => false,
    }
}
