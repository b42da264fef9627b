//! Reads the lines of a script.

use crate::line::{Block, CrashImage, Line, Picks, Verb};
use crate::parse_calls::{disk_call, pool_call};
use crate::parse_clients::client_call;
use crate::text::{Words, cut_at, cut_at_mark, trim};
use std::alloc::{AllocError, Global};

pub(crate) fn crash_image(words: &mut Words<'_>) -> CrashImage {
    match words.next_name() {
        "oldest" => CrashImage::Oldest,
        "newest" => CrashImage::Newest,
        "second" => CrashImage::Second,
        "in-turn" => CrashImage::InTurn,
        "newest-superblocks" => CrashImage::NewestSuperblocks,
        "oldest-superblocks" => CrashImage::OldestSuperblocks,
        "newest-from" => CrashImage::NewestFrom(words.number()),
        "mixed" => CrashImage::Mixed(words.number()),
        _ => {
            words.refuse();
            CrashImage::Oldest
        }
    }
}

fn crash_images(words: &mut Words<'_>) -> Picks {
    let mut picks = [None; 6];
    for place in 0..6usize {
        if !words.is_empty() {
            picks[place] = Some(crash_image(words));
        }
    }
    picks
}

/// Reads a line after its first word, `each`.
fn each_call<'a>(words: &mut Words<'_>) -> Block<'a> {
    if words.take("allocation:") {
        words.expect("refuse");
        return Block::EachAllocation;
    }
    words.expect("call:");
    match words.next_name() {
        "crash" => Block::EachCrash(crash_images(words)),
        "fail" => Block::EachFault(crash_images(words)),
        _ => {
            words.refuse();
            Block::End
        }
    }
}

/// Reads a line after its first word, `try`.
fn tried<'a>(words: &mut Words<'a>) -> Block<'a> {
    if !words.take("each") {
        return Block::Try(words.all());
    }
    words.expect("byte");
    words.expect("of");
    let block = words.number();
    words.expect("with");
    Block::TryEachByte(block, words.number())
}

/// Reads a line of a block whose first word is read already. Returns `None` if the word names a call.
fn block_line<'a>(word: &str, words: &mut Words<'a>) -> Option<Block<'a>> {
    Some(match word {
        "case" => Block::Case(words.all()),
        "if-crashed" => Block::IfCrashed(crash_image(words)),
        "then" => Block::Then(crash_images(words)),
        "end" => Block::End,
        "each" => each_call(words),
        "trial" => Block::Trial,
        "try" => tried(words),
        "repeat" => Block::Repeat(words.number(), words.number(), words.all()),
        "random" => Block::Random(words.number(), words.number()),
        _ => return None,
    })
}

/// Reads a line of a client, of which there are 64, after its first word.
fn client_line<'a>(words: &mut Words<'a>) -> Verb<'a> {
    let number = words.byte();
    words.refuse_unless(number < 64);
    Verb::Client(number, client_call(words))
}

fn verb_of<'a>(word: &str, words: &mut Words<'a>) -> Verb<'a> {
    if let Some(block) = block_line(word, words) {
        return Verb::Block(block);
    }
    if let Some(call) = disk_call(word, words) {
        return Verb::Disk(call);
    }
    match word {
        "client" => client_line(words),
        _ => Verb::Pool(pool_call(word, words)),
    }
}

fn whole_verb(text: &[u8]) -> Option<Verb<'_>> {
    let mut words = Words::of(text);
    let word = words.next_name();
    let verb = verb_of(word, &mut words);
    if words.is_ended() { Some(verb) } else { None }
}

/// Splits a line into its call and the answer that it requires. A line that stands for several keeps the answer in its text.
fn call_and_expected(text: &[u8]) -> (&[u8], &[u8]) {
    if text.starts_with(b"repeat ".as_slice()) {
        return (text, b"");
    }
    let (call, expected) = cut_at_mark(text, b" = ");
    if expected.is_empty() {
        cut_at_mark(text, b" -> ")
    } else {
        (call, expected)
    }
}

/// Reads a line. `number`: its number in the script. Returns `None` if it is not a line of a script.
pub fn line_at(number: usize, text: &[u8]) -> Option<Line<'_>> {
    let (call, expected) = call_and_expected(text);
    Some(Line {
        number,
        text,
        verb: whole_verb(call)?,
        expected,
    })
}

/// Returns the text of a line without its comment.
fn without_comment(text: &[u8]) -> &[u8] {
    trim(cut_at(text, b'#').0)
}

/// Reads the lines of a script, without comments and empty lines; or returns the number of the first that is not one.
pub fn lines_of(alloc: Global, script: &[u8]) -> Result<Result<Vec<Line<'_>>, usize>, AllocError> {
    let mut lines = Vec::new(alloc);
    let mut rest = script;
    for number in 1..script.len().saturating_add(2) {
        let (text, after) = cut_at(rest, b'\n');
        let text = without_comment(text);
        if !text.is_empty() {
            match line_at(number, text) {
                Some(line) => lines.push(line)?,
                None => return Ok(Err(number)),
            }
        }
        match after {
            Some(after) => rest = after,
            None => break,
        }
    }
    Ok(Ok(lines))
}
