//! Blocks of which `tools/refused_memory` refuses each allocation in turn. No allocator here refuses
//! one, so without the tool each line has the answer that it requires.

use crate::matrix::is_left_right;
use crate::play::{judge_call, play_call};
use crate::report::Report;
use crate::world::{NO_CALLS, World, fault_for};
use std::alloc::AllocError;
use tp_hub::Answers;
use tp_model::Refusal;
use tp_script::{Answer, Buffer, Caller, CrashImage, Line};

/// The bytes of the allocations by which the tool sees where a block begins and ends. No other one
/// has as many.
const BEGIN: usize = 70_001;

const END: usize = 70_003;

/// A disk call that is never made. In a block the disk may fail, for it may have no memory for a
/// write: the reference model has to know.
const NEVER: (u64, u64) = (u64::MAX, u64::MAX);

/// What became of a block.
#[derive(Clone, Copy)]
enum Outcome {
    /// The player was refused memory, not the product.
    Before,
    /// Each line had the answer that it requires.
    Done,
    /// So it had, but one was refused memory first, wrote nothing, and was played again.
    Refused,
    /// The disk had no memory for a write, and left what a crash may leave.
    DiskFailed,
    Wrong,
}

impl Outcome {
    fn word(self) -> &'static [u8] {
        match self {
            Outcome::Before => b"before",
            Outcome::Done => b"done",
            Outcome::Refused => b"refused",
            Outcome::DiskFailed => b"disk",
            Outcome::Wrong => b"wrong",
        }
    }
}

fn right_if(is_right: bool, outcome: Outcome) -> Outcome {
    if is_right { outcome } else { Outcome::Wrong }
}

/// Returns whether an answer is that of a call in which the disk failed, or had failed before.
fn is_failure(answer: Answer) -> bool {
    matches!(answer, Answer::Failed(Refusal::Fault | Refusal::Failed))
        || answer == fault_for(Caller::Client)
}

impl World {
    fn allocate_mark(&mut self, bytes: usize) -> Result<(), AllocError> {
        self.mark = Vec::with_capacity(self.alloc, bytes)?;
        Ok(())
    }

    /// Returns the checksum of the disk as it was last written.
    ///
    /// Errors: `AllocError` if there was no memory for its changes, or for the box of the disk.
    fn written(&self) -> Result<u64, AllocError> {
        match self.checksum(CrashImage::Newest)? {
            Some(sum) => Ok(sum),
            None => Err(AllocError),
        }
    }

    /// Plays a line, before which there is no room for the server's answers. Returns whether it
    /// wrote to the disk.
    fn play_anew(
        &mut self,
        line: &Line<'_>,
        text: &mut Buffer,
    ) -> Result<(Answer, bool), AllocError> {
        let before = self.written()?;
        self.out = Answers::new(self.alloc);
        let answer = self.play_spelled(line, text)?;
        let after = self.written()?;
        if text.is_whole() {
            Ok((answer, after != before))
        } else {
            Err(AllocError)
        }
    }
}

/// Plays a line of which an allocation may be refused.
fn play_refusable_line(
    report: &mut Report,
    world: &mut World,
    line: &Line<'_>,
) -> Result<Outcome, AllocError> {
    let mut text = Buffer::new(report.alloc);
    let (answer, has_written) = world.play_anew(line, &mut text)?;
    if answer == Answer::Failed(Refusal::Memory) && !has_written {
        let is_right = play_call(report, world, line)?;
        return Ok(right_if(is_right, Outcome::Refused));
    }
    if is_failure(answer) && has_written && line.expected.is_empty() {
        return Ok(right_if(is_left_right(world)?, Outcome::DiskFailed));
    }
    report.count_checks(1);
    let is_right = judge_call(report, world, line, answer, text.as_slice());
    let has_resumed = world.has_resumed;
    Ok(right_if(
        is_right,
        if has_resumed {
            Outcome::Refused
        } else {
            Outcome::Done
        },
    ))
}

/// Plays the lines of a block, up to one that has neither the required answer nor was refused
/// memory.
fn play_refusable_lines(
    report: &mut Report,
    world: &mut World,
    lines: &[Line<'_>],
) -> Result<Outcome, AllocError> {
    let mut all = Outcome::Done;
    for line in lines {
        match play_refusable_line(report, world, line)? {
            Outcome::Done => {}
            Outcome::Refused => all = Outcome::Refused,
            other => return Ok(other),
        }
    }
    Ok(all)
}

/// Plays a block of which an allocation may be refused, and reports what became of it. Returns
/// whether the case goes on.
pub(crate) fn play_refusable(
    report: &mut Report,
    world: &mut World,
    line: &Line<'_>,
    lines: &[Line<'_>],
) -> Result<bool, AllocError> {
    world.allocate_mark(BEGIN)?;
    world.failing = NEVER;
    let outcome = play_refusable_lines(report, world, lines).unwrap_or(Outcome::Before);
    world.failing = NO_CALLS;
    world.allocate_mark(END)?;
    report.add_outcome(line, outcome.word());
    Ok(matches!(outcome, Outcome::Done | Outcome::Refused))
}
