//! Plays scripts, case by case and line by line.

use crate::counts::{Counts, Kind};
use crate::lifetimes::Kept;
use crate::matrix::{Plan, play_matrix};
use crate::memory::play_refusable;
use crate::report::Report;
use crate::trials::{Changed, play_trial};
use crate::world::World;
use std::alloc::{AllocError, Global};
use std::io::{self, Write};
use std::process::ExitCode;
use std::rt::{Env, Files};
use std::{env, fs};
use tp_script::{
    Answer, Block, Buffer, ClientCall, CrashImage, Line, Picks, Verb, add_answer, cut_at, line_at,
    lines_of, number_of,
};

/// Returns whether a line without a required answer may have this one.
fn is_success(line: &Line<'_>, answer: Answer) -> bool {
    match answer {
        Answer::Done | Answer::Reported => true,
        Answer::Closed => matches!(
            line.verb,
            Verb::Client(_, ClientCall::HangUp | ClientCall::Disconnect)
        ),
        _ => false,
    }
}

/// Returns whether a line has the answer that it requires. `text`: the spelling of the answer.
pub(crate) fn is_expected(line: &Line<'_>, answer: Answer, text: &[u8]) -> bool {
    if line.expected.is_empty() {
        is_success(line, answer)
    } else {
        line.expected == text
    }
}

impl World {
    /// Plays a line that is a call.
    #[inline(never)]
    pub(crate) fn play(&mut self, verb: &Verb<'_>) -> Result<Answer, AllocError> {
        self.clear();
        let answer = match verb {
            Verb::Disk(line) => self.play_disk(line)?,
            Verb::Pool(line) => self.play_pool(line),
            Verb::Client(number, call) => self.play_client(*number, *call),
            Verb::Block(_) => Answer::Misplaced,
        };
        self.whole()?;
        Ok(answer)
    }

    /// Plays a line, and adds the spelling of its answer.
    pub(crate) fn play_spelled(
        &mut self,
        line: &Line<'_>,
        text: &mut Buffer,
    ) -> Result<Answer, AllocError> {
        let answer = self.play(&line.verb)?;
        add_answer(text, answer, self.report.as_slice());
        Ok(answer)
    }
}

/// Returns the answer that a line requires.
fn required<'a>(line: &Line<'a>) -> &'a [u8] {
    if line.expected.is_empty() {
        b"ok"
    } else {
        line.expected
    }
}

/// Judges the answer of a line. Returns whether it is right.
pub(crate) fn judge_call(
    report: &mut Report,
    world: &World,
    line: &Line<'_>,
    answer: Answer,
    text: &[u8],
) -> bool {
    let is_right = is_expected(line, answer, text);
    if !is_right {
        report.fail(line, required(line), text);
    } else if !world.mismatch.is_empty() {
        report.fail(line, world.mismatch.as_slice(), text);
    }
    is_right && world.mismatch.is_empty()
}

/// Plays a line that is a call. Returns whether it is right.
pub(crate) fn play_call(
    report: &mut Report,
    world: &mut World,
    line: &Line<'_>,
) -> Result<bool, AllocError> {
    report.count_checks(1);
    let mut text = Buffer::new(report.alloc);
    let answer = world.play_spelled(line, &mut text)?;
    Ok(judge_call(report, world, line, answer, text.as_slice()))
}

/// Adds a number, with `*FACTOR` before the text `FACTOR` times the number, and with `+MORE` the
/// sum. Returns the text after that.
fn add_multiple<'a>(out: &mut Buffer, text: &'a [u8], number: u64) -> &'a [u8] {
    let (term, after) = cut_at(text, b' ');
    let operand = number_of(term.get(1..).unwrap_or(&[]));
    let result = match (term.first().copied(), operand) {
        (Some(b'*'), Some(factor)) => number.saturating_mul(factor),
        (Some(b'+'), Some(more)) => number.saturating_add(more),
        _ => {
            out.add_number(number);
            return text;
        }
    };
    out.add_number(result);
    text.get(term.len()..).unwrap_or(&[])
}

/// Adds a line with a number in place of each `$`, `FACTOR` times the number in place of
/// `$*FACTOR`, and a sum in place of `$+MORE`.
pub(crate) fn add_with_number(out: &mut Buffer, line: &[u8], number: u64) {
    let mut rest = line;
    for _ in 0..line.len().saturating_add(1) {
        let (before, after) = cut_at(rest, b'$');
        out.add(before);
        let Some(after) = after else {
            break;
        };
        rest = add_multiple(out, after, number);
    }
}

/// Plays the line that a `repeat` has for one number. Returns whether it is right.
fn play_repeated(
    report: &mut Report,
    world: &mut World,
    line: &Line<'_>,
    text: &[u8],
) -> Result<bool, AllocError> {
    match line_at(line.number, text) {
        Some(line) => play_call(report, world, &line),
        None => {
            report.fail(line, b"a line of a script", text);
            Ok(false)
        }
    }
}

/// Plays a line that is a call, or one for several. Returns whether all are right.
fn play_line(report: &mut Report, world: &mut World, line: &Line<'_>) -> Result<bool, AllocError> {
    let Verb::Block(Block::Repeat(first, last, text)) = line.verb else {
        return play_call(report, world, line);
    };
    let mut one = Buffer::new(report.alloc);
    for number in first..last.saturating_add(1) {
        one.clear();
        add_with_number(&mut one, text, number);
        if !play_repeated(report, world, line, one.as_slice())? {
            return Ok(false);
        }
    }
    Ok(true)
}

fn play_lines(
    report: &mut Report,
    world: &mut World,
    lines: &[Line<'_>],
) -> Result<bool, AllocError> {
    for line in lines {
        if !play_line(report, world, line)? {
            return Ok(false);
        }
    }
    Ok(true)
}

/// Returns the answer of opening what a crash left of a world, in another one.
fn open_crashed(world: &World, other: &mut World, image: CrashImage) -> Result<Answer, AllocError> {
    other.begin_as(world)?;
    match world.left(image)? {
        Some(disk) => other.open_left(disk),
        None => Ok(Answer::Misplaced),
    }
}

/// Judges the opening of what a crash left. Returns whether it is right.
fn judge_opening(report: &mut Report, other: &World, line: &Line<'_>, answer: Answer) -> bool {
    let mut text = Buffer::new(report.alloc);
    add_answer(&mut text, answer, b"");
    let is_right = is_expected(line, answer, text.as_slice()) && other.mismatch.is_empty();
    if !is_right {
        let expected = if line.expected.is_empty() {
            other.mismatch.as_slice()
        } else {
            line.expected
        };
        report.fail(line, expected, text.as_slice());
    }
    is_right
}

/// Plays lines on what a crash leaves of a world, which goes on afterwards.
fn play_crashed(
    report: &mut Report,
    world: &World,
    line: &Line<'_>,
    image: CrashImage,
    lines: &[Line<'_>],
) -> Result<bool, AllocError> {
    report.count_checks(1);
    let mut other = World::boxed(report.alloc)?;
    let answer = open_crashed(world, &mut other, image)?;
    if judge_opening(report, &other, line, answer) {
        play_lines(report, &mut other, lines)
    } else {
        Ok(false)
    }
}

/// Reports how a matrix ended. Returns whether it is right.
fn report_matrix(
    report: &mut Report,
    line: &Line<'_>,
    end: Option<&Line<'_>>,
    counts: &Counts,
) -> bool {
    report.count_checks(counts.checks());
    let mut text = Buffer::new(report.alloc);
    counts.add_to(&mut text);
    if counts.wrong > 0 {
        let allowed = b"what the reference model allows";
        report.fail(line, allowed, text.as_slice());
        return false;
    }
    match end {
        Some(end) if !end.expected.is_empty() && end.expected != text.as_slice() => {
            report.fail(end, end.expected, text.as_slice());
            false
        }
        _ => true,
    }
}

/// Closes the pool of a world, and returns a copy of its disk with the reference model's state.
fn kept_of(world: &mut World) -> Result<Option<Box<Kept>>, AllocError> {
    if world.has_pool() {
        world.close();
    }
    let Some(reference) = world.reference() else {
        return Ok(None);
    };
    world.keep(CrashImage::Newest, reference.copy()?)
}

fn play_plan(
    report: &mut Report,
    world: &mut World,
    line: &Line<'_>,
    end: Option<&Line<'_>>,
    plan: &Plan<'_>,
) -> Result<bool, AllocError> {
    let Some(kept) = kept_of(world)? else {
        report.fail(line, b"a pool", b"none");
        return Ok(false);
    };
    let counts = play_matrix(report.alloc, &kept, plan)?;
    Ok(report_matrix(report, line, end, &counts))
}

fn play_random(
    report: &mut Report,
    world: &mut World,
    line: &Line<'_>,
    seed: u64,
    steps: u64,
) -> Result<bool, AllocError> {
    report.count_checks(steps);
    let Some(number) = world.first_wrong_step(seed, steps)? else {
        return Ok(true);
    };
    let mut text = Buffer::new(report.alloc);
    text.add(b"another one, after step ");
    text.add_number(number);
    report.fail(line, world.mismatch.as_slice(), text.as_slice());
    Ok(false)
}

/// Plays a trial. Returns whether its answers are right.
fn play_tried(
    report: &mut Report,
    world: &World,
    line: &Line<'_>,
    changed: Changed<'_>,
    lines: &[Line<'_>],
) -> Result<bool, AllocError> {
    let mut text = Buffer::new(report.alloc);
    let copies = play_trial(world, changed, lines, &mut text)?;
    report.count_checks(copies);
    let is_right = copies > 0 && required(line) == text.as_slice();
    if !is_right {
        report.fail(line, required(line), text.as_slice());
    }
    Ok(is_right)
}

/// Returns the places of the `then` and of the `end` of the block that begins before this line. A
/// block without `then` has it at its end.
fn end_of(lines: &[Line<'_>], from: usize) -> (usize, usize) {
    let mut then = lines.len();
    for place in from..lines.len() {
        match lines[place].verb {
            Verb::Block(Block::End) => return (then.min(place), place),
            Verb::Block(Block::Then(_)) => then = place,
            _ => {}
        }
    }
    (then, lines.len())
}

fn part<'a>(lines: &'a [Line<'a>], from: usize, to: usize) -> &'a [Line<'a>] {
    lines.get(from..to).unwrap_or(&[])
}

/// The block that begins at a line: its lines, those after its `then`, and the line that ends it.
#[derive(Clone, Copy)]
struct Inner<'a> {
    steps: &'a [Line<'a>],
    then: &'a [Line<'a>],
    later_picks: Option<Picks>,
    end: Option<&'a Line<'a>>,
}

/// Returns the images that the `then` at this place lists, if it lists any.
fn picks_at(lines: &[Line<'_>], place: usize) -> Option<Picks> {
    match lines.get(place)?.verb {
        Verb::Block(Block::Then(picks)) => {
            if picks[0].is_some() {
                Some(picks)
            } else {
                None
            }
        }
        _ => None,
    }
}

fn inner_of<'a>(lines: &'a [Line<'a>], from: usize) -> Inner<'a> {
    let (then, end) = end_of(lines, from);
    Inner {
        steps: part(lines, from, then),
        then: part(lines, then.saturating_add(1), end),
        later_picks: picks_at(lines, then),
        end: lines.get(end),
    }
}

fn plan_of<'a>(inner: &Inner<'a>, picks: Picks, kind: Kind) -> Plan<'a> {
    Plan {
        steps: inner.steps,
        then: inner.then,
        picks,
        later_picks: inner.later_picks.unwrap_or(picks),
        kind,
    }
}

/// Returns the place of the line after the one at this place and its block.
fn next_place(lines: &[Line<'_>], at: usize) -> usize {
    let next = at.saturating_add(1);
    match lines.get(at) {
        Some(line) if line.verb.begins_block() => end_of(lines, next).1.saturating_add(1),
        _ => next,
    }
}

/// Returns the lines of the last trial that begins before this place.
fn trial_before<'a>(lines: &'a [Line<'a>], at: usize) -> &'a [Line<'a>] {
    let mut from = at;
    for place in 0..at.min(lines.len()) {
        if matches!(lines[place].verb, Verb::Block(Block::Trial)) {
            from = place.saturating_add(1);
        }
    }
    part(lines, from, end_of(lines, from).1.min(at))
}

/// Plays a line that begins a block or stands for several. Returns whether it is right.
fn play_block(
    report: &mut Report,
    world: &mut World,
    line: &Line<'_>,
    block: Block<'_>,
    inner: &Inner<'_>,
) -> Result<bool, AllocError> {
    match block {
        Block::IfCrashed(image) => play_crashed(report, world, line, image, inner.steps),
        Block::EachCrash(picks) => {
            let plan = plan_of(inner, picks, Kind::Crashes);
            play_plan(report, world, line, inner.end, &plan)
        }
        Block::EachFault(picks) => {
            let plan = plan_of(inner, picks, Kind::Faults);
            play_plan(report, world, line, inner.end, &plan)
        }
        Block::EachAllocation => play_refusable(report, world, line, inner.steps),
        Block::Random(seed, steps) => play_random(report, world, line, seed, steps),
        Block::Trial => Ok(true),
        _ => play_line(report, world, line),
    }
}

/// Plays the line at a place of a case, with its block. Returns whether it is right.
fn play_at(
    report: &mut Report,
    world: &mut World,
    lines: &[Line<'_>],
    at: usize,
) -> Result<bool, AllocError> {
    let Some(line) = lines.get(at) else {
        return Ok(false);
    };
    let Verb::Block(block) = line.verb else {
        return play_line(report, world, line);
    };
    let changed = match block {
        Block::Try(changes) => Changed::By(changes),
        Block::TryEachByte(block, bits) => Changed::EachByte(block, bits),
        _ => {
            let inner = inner_of(lines, at.saturating_add(1));
            return play_block(report, world, line, block, &inner);
        }
    };
    play_tried(report, world, line, changed, trial_before(lines, at))
}

/// Plays the lines of a case up to the first that is wrong.
fn play_case_in(
    report: &mut Report,
    world: &mut World,
    lines: &[Line<'_>],
) -> Result<(), AllocError> {
    let mut at: usize = 0;
    for _ in 0..lines.len() {
        if !play_at(report, world, lines, at)? {
            break;
        }
        at = next_place(lines, at);
    }
    Ok(())
}

fn play_case(report: &mut Report, lines: &[Line<'_>]) -> Result<(), AllocError> {
    report.begin_case();
    let mut world = World::boxed(report.alloc)?;
    play_case_in(report, &mut world, lines)
}

/// Returns whether a case ends before this place.
fn ends_case(lines: &[Line<'_>], place: usize) -> bool {
    match lines.get(place) {
        Some(line) => matches!(line.verb, Verb::Block(Block::Case(_))),
        None => true,
    }
}

/// Plays the cases of a script. The lines before the first `case` are one too.
fn play_cases(report: &mut Report, lines: &[Line<'_>]) -> Result<(), AllocError> {
    let mut from: usize = 0;
    for place in 0..lines.len().saturating_add(1) {
        if ends_case(lines, place) {
            if from < place {
                play_case(report, part(&*lines, from, place))?;
            }
            from = place.saturating_add(1);
        }
    }
    Ok(())
}

fn play_script(report: &mut Report, name: &str, text: &[u8]) -> Result<(), AllocError> {
    report.begin_script(name);
    match lines_of(report.alloc, text)? {
        Ok(lines) => {
            play_cases(report, &lines)?;
            report.end_script();
        }
        Err(number) => report.fail_line(number),
    }
    Ok(())
}

fn play_files<R: Files + Env + Alloc<A = Global>>(rt: &R, report: &mut Report) -> io::Result<()> {
    for name in env::args(rt)?.skip(1) {
        let text = fs::read(rt, name.as_str())?;
        play_script(report, name.as_str(), &text)?;
    }
    report.end();
    Ok(())
}

/// Plays the scripts that the arguments name, and writes the report. Returns the exit status: 1 if
/// a line is wrong, or nothing is played.
pub fn play_scripts<R: Files + Env + Alloc<A = Global>, W: Write>(
    rt: &R,
    out: &mut W,
) -> io::Result<ExitCode> {
    let mut report = Report::new(rt.alloc());
    play_files(rt, &mut report)?;
    out.write_all(report.text.as_slice())?;
    let is_right = report.is_right();
    Ok(ExitCode::from(if is_right { 0u8 } else { 1u8 }))
}
