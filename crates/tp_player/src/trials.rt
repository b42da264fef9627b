//! The answers of calls on changed copies of an image.

use crate::image::flip_byte;
use crate::play::is_expected;
use crate::stage::Stage;
use crate::world::World;
use std::alloc::{AllocError, Global};
use tp_disk::Fault;
use tp_script::{Answer, Buffer, CrashImage, Line, cut_at, line_at};

/// A word that answers a line, and the number of copies on which it does.
#[derive(Drop)]
struct Outcome {
    word: Buffer,
    count: u64,
}

/// The answers to a line.
#[derive(Drop)]
struct Answers {
    /// The report of the image itself.
    first: Buffer,
    outcomes: Vec<Outcome>,
}

impl Answers {
    fn count(&mut self, word: &[u8]) -> Result<(), AllocError> {
        let place = self
            .outcomes
            .iter()
            .position(|outcome| outcome.word.as_slice() == word);
        if let Some(place) = place {
            if let Some(outcome) = self.outcomes.get_mut(place) {
                outcome.count = outcome.count.saturating_add(1);
            }
            return Ok(());
        }
        let mut text = Buffer::new(self.first.alloc());
        text.add(word);
        self.outcomes.push(Outcome {
            word: text,
            count: 1,
        })?;
        Ok(())
    }

    /// Counts an answer. `text`: its spelling.
    fn note(&mut self, answer: Answer, text: &[u8]) -> Result<(), AllocError> {
        match answer {
            Answer::Done => self.count(b"ok"),
            Answer::Reported if text == self.first.as_slice() => self.count(b"ok"),
            Answer::Reported => self.count(b"other"),
            _ => self.count(text),
        }
    }

    /// Adds each word with its number.
    fn add_counts(&self, out: &mut Buffer) {
        for outcome in &self.outcomes {
            out.separate(b" ");
            out.add_number(outcome.count);
            out.add(b" ");
            out.add(outcome.word.as_slice());
        }
    }

    /// Adds the word of the only copy, unless it is `ok`.
    fn add_word(&self, out: &mut Buffer) {
        if let Some(outcome) = self.outcomes.first() {
            if outcome.word.as_slice() != b"ok".as_slice() {
                out.add(outcome.word.as_slice());
            }
        }
    }
}

/// The answers to the lines of a trial.
#[derive(Drop)]
struct Trial {
    answers: Vec<Answers>,
    /// Whether a changed copy is tried, and not the image itself.
    is_changed: bool,
    /// Whether a line does not fit there on the image itself.
    is_misplaced: bool,
    /// The number of changed copies.
    copies: u64,
}

/// What is changed of the copies.
#[derive(Clone, Copy)]
pub(crate) enum Changed<'a> {
    /// One copy, by these changes.
    By(&'a [u8]),
    /// In each copy these bits of one byte of this block are flipped.
    EachByte(u64, u64),
}

fn no_answers(alloc: Global, count: usize) -> Result<Vec<Answers>, AllocError> {
    let mut answers = Vec::new(alloc);
    for _ in 0..count {
        answers.push(Answers {
            first: Buffer::new(alloc),
            outcomes: Vec::new(alloc),
        })?;
    }
    Ok(answers)
}

/// Returns the word that names a line: its first one, and of a message its name.
fn name_of<'a>(line: &Line<'a>) -> &'a [u8] {
    let (word, rest) = cut_at(line.text, b' ');
    match rest {
        Some(rest) if word == b"message".as_slice() => cut_at(rest, b' ').0,
        _ => word,
    }
}

fn add_group(out: &mut Buffer, names: &mut Buffer, text: &mut Buffer) {
    if !text.is_empty() {
        out.separate(b", ");
        out.add(names.as_slice());
        out.add(b" ");
        out.add(text.as_slice());
    }
    names.clear();
    text.clear();
}

impl Trial {
    fn new(alloc: Global, lines: usize) -> Result<Trial, AllocError> {
        Ok(Trial {
            answers: no_answers(alloc, lines)?,
            is_changed: false,
            is_misplaced: lines == 0,
            copies: 0,
        })
    }

    /// Notes the answer to a line.
    fn note(&mut self, place: usize, answer: Answer, text: &[u8]) -> Result<(), AllocError> {
        match self.answers.get_mut(place) {
            Some(answers) if self.is_changed => answers.note(answer, text),
            Some(answers) => {
                answers.first.add(text);
                Ok(())
            }
            None => Ok(()),
        }
    }

    fn add_answers(&self, place: usize, out: &mut Buffer) {
        if let Some(answers) = self.answers.get(place) {
            if self.copies == 1 {
                answers.add_word(out);
            } else {
                answers.add_counts(out);
            }
        }
    }

    /// Adds the answers. Equal ones to lines that follow each other are added once.
    fn add_to(&self, lines: &[Line<'_>], out: &mut Buffer) {
        let mut names = Buffer::new(out.alloc());
        let mut text = Buffer::new(out.alloc());
        let mut next = Buffer::new(out.alloc());
        for place in 0..lines.len() {
            next.clear();
            self.add_answers(place, &mut next);
            if !next.is_empty() {
                if next.as_slice() != text.as_slice() {
                    add_group(out, &mut names, &mut text);
                    text.add(next.as_slice());
                }
                names.separate(b" ");
                names.add(name_of(&lines[place]));
            }
        }
        add_group(out, &mut names, &mut text);
        if out.is_empty() {
            out.add(b"ok");
        }
    }
}

impl World {
    /// Plays a line of a trial. Returns whether the copy is tried further.
    fn try_line(
        &mut self,
        line: &Line<'_>,
        place: usize,
        trial: &mut Trial,
    ) -> Result<bool, AllocError> {
        let mut text = Buffer::new(self.alloc);
        let answer = self.play_spelled(line, &mut text)?;
        if answer == Answer::Misplaced {
            trial.is_misplaced = trial.is_misplaced || !trial.is_changed;
            return Ok(true);
        }
        trial.note(place, answer, text.as_slice())?;
        Ok(line.expected.is_empty() || is_expected(line, answer, text.as_slice()))
    }

    /// Plays the lines of a trial, and closes the pool.
    fn try_lines(&mut self, lines: &[Line<'_>], trial: &mut Trial) -> Result<(), AllocError> {
        for place in 0..lines.len() {
            if !self.try_line(&lines[place], place, trial)? {
                break;
            }
        }
        if self.has_pool() {
            self.close();
        }
        Ok(())
    }

    /// Plays the lines of a trial on a changed copy.
    fn try_copy(&mut self, lines: &[Line<'_>], trial: &mut Trial) -> Result<(), AllocError> {
        trial.is_changed = true;
        trial.copies = trial.copies.saturating_add(1);
        self.try_lines(lines, trial)
    }

    /// Becomes a copy of a closed pool, without a reference model. Returns whether it is one.
    fn copy_image(&mut self, whole: &World) -> Result<bool, AllocError> {
        self.begin_without_reference(whole);
        let Stage::Disk(disk) = &whole.stage else {
            return Ok(false);
        };
        let mut disk = disk.left(self.alloc, CrashImage::Newest)?;
        disk.end_sums();
        self.stage = Stage::Disk(disk);
        Ok(true)
    }

    fn make_change(&mut self, text: &[u8]) -> Result<bool, AllocError> {
        match line_at(0, text) {
            Some(line) => Ok(self.play(&line.verb)? == Answer::Done),
            None => Ok(false),
        }
    }

    /// Makes changes, with `;` between them. Returns whether all were made.
    fn make_changes(&mut self, changes: &[u8]) -> Result<bool, AllocError> {
        let mut rest = changes;
        for _ in 0..changes.len() {
            let (text, after) = cut_at(rest, b';');
            if !self.make_change(text)? {
                return Ok(false);
            }
            match after {
                Some(after) => rest = after,
                None => break,
            }
        }
        Ok(true)
    }

    fn flip(&mut self, block: u64, place: u64, bits: u64) -> Result<(), Fault> {
        match &mut self.stage {
            Stage::Disk(disk) => flip_byte(disk, block, place, bits),
            _ => Err(Fault),
        }
    }

    /// Takes back what was changed of a copy. Returns whether that succeeded.
    fn restore(&mut self, whole: &World) -> bool {
        match (&mut self.stage, &whole.stage) {
            (Stage::Disk(disk), Stage::Disk(whole)) => disk.restore(whole).is_ok(),
            _ => false,
        }
    }

    /// Tries the copy with bits of a byte flipped, and takes that back. Returns whether the image
    /// has the byte.
    fn try_byte(
        &mut self,
        whole: &World,
        byte: (u64, u64, u64),
        lines: &[Line<'_>],
        trial: &mut Trial,
    ) -> Result<bool, AllocError> {
        let (block, place, bits) = byte;
        if self.flip(block, place, bits).is_err() {
            return Ok(false);
        }
        self.try_copy(lines, trial)?;
        Ok(self.restore(whole))
    }

    fn try_each_byte(
        &mut self,
        whole: &World,
        block: u64,
        bits: u64,
        lines: &[Line<'_>],
        trial: &mut Trial,
    ) -> Result<bool, AllocError> {
        for place in 0..4096 {
            if !self.try_byte(whole, (block, place, bits), lines, trial)? {
                return Ok(false);
            }
        }
        Ok(true)
    }

    fn try_changed(
        &mut self,
        whole: &World,
        changed: Changed<'_>,
        lines: &[Line<'_>],
        trial: &mut Trial,
    ) -> Result<bool, AllocError> {
        match changed {
            Changed::By(changes) => {
                let has_changed = self.make_changes(changes)?;
                self.try_copy(lines, trial)?;
                Ok(has_changed)
            }
            Changed::EachByte(block, bits) => {
                self.try_each_byte(whole, block, bits, lines, trial)
            }
        }
    }
}

/// Plays a trial of a closed pool's image, and adds the answers. Returns the number of changed
/// copies, which is 0 if the image cannot be changed so.
pub(crate) fn play_trial(
    whole: &World,
    changed: Changed<'_>,
    lines: &[Line<'_>],
    out: &mut Buffer,
) -> Result<u64, AllocError> {
    let mut copy = World::boxed(whole.alloc)?;
    let mut trial = Trial::new(whole.alloc, lines.len())?;
    if !copy.copy_image(whole)? {
        return Ok(0);
    }
    copy.try_lines(lines, &mut trial)?;
    if trial.is_misplaced || !copy.restore(whole) {
        return Ok(0);
    }
    if !copy.try_changed(whole, changed, lines, &mut trial)? {
        return Ok(0);
    }
    trial.add_to(lines, out);
    Ok(trial.copies)
}
