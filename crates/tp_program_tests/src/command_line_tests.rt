//! Tests of `--explain` after each command, and of arguments as the system has them. The transcript `usage` has command lines that are wrong.

use std::alloc::Global;
use std::env::FillError;
use std::rt::Env;
use tp_program::{Status, without_words};
use tp_words::{Asked, NoWords, command, words};

/// A command line of each command, with `--explain` after it.
const EXPLAINED_LINES: &[&[&str]] = &[
    &["thinpool", "format", "a", "1", "2", "3", "4", "--explain"],
    &[
        "thinpool",
        "create",
        "a",
        "--size",
        "1",
        "--volume-size",
        "1",
        "--volumes",
        "1",
        "--explain",
    ],
    &["thinpool", "message", "a", "b", "--explain"],
    &["thinpool", "status", "a", "--explain"],
    &["thinpool", "ls", "a", "--explain"],
    &["thinpool", "map", "a", "1", "--explain"],
    &["thinpool", "delta", "a", "1", "2", "--explain"],
    &["thinpool", "free", "a", "--explain"],
    &["thinpool", "check", "a", "--explain"],
    &["thinpool", "feed", "a", "--explain"],
    &["thinpool", "serve", "a", "b:1", "1", "--explain"],
    &["thinpool", "play", "a", "b", "--explain"],
    &["thinpool", "run", "a", "--listen", "b:1", "--explain"],
    &["thinpool", "ask", "a", "b", "--explain"],
];

/// The first of these that names no task which is to be explained.
fn first_unexplained(alloc: Global, lines: &[&[&str]]) -> Option<usize> {
    for (i, words) in lines.iter().enumerate() {
        match command(alloc, words) {
            Ok(Asked { explains: true, .. }) => {}
            _ => return Some(i),
        }
    }
    None
}

#[test]
fn each_command_is_explained(rt: HostRuntime) {
    let first = first_unexplained(rt.alloc(), EXPLAINED_LINES);
    assert_eq!(rt; first, None);
}

/// A system whose command line has these words.
#[derive(Drop)]
struct Words<'a>(&'a [&'a [u8]]);

impl Env for Words<'_> {
    fn arg(&self, i: usize, buf: &mut [u8]) -> Result<usize, FillError> {
        let Some(word) = self.0.get(i) else {
            return Err(FillError::NotPresent);
        };
        let Some(room) = buf.get_mut(..word.len()) else {
            return Err(FillError::TooLong);
        };
        room.copy_from_slice(word);
        Ok(word.len())
    }

    fn var(&self, _name: &str, _buf: &mut [u8]) -> Result<usize, FillError> {
        Err(FillError::NotPresent)
    }

    fn var_at(&self, _i: usize, _buf: &mut [u8]) -> Result<usize, FillError> {
        Err(FillError::NotPresent)
    }
}

/// How many bytes each of these words has that are read as words, the program's name first.
fn lengths(alloc: Global, system: &[&[u8]]) -> Result<[usize; 2], NoWords> {
    let words = words(&Words(system), alloc)?;
    match words.as_slice() {
        [name, word] => Ok([name.len(), word.len()]),
        _ => Ok([0, 0]),
    }
}

#[test]
fn words_are_taken_from_the_system(rt: HostRuntime) {
    let alloc = rt.alloc();
    let good = lengths(alloc, &[b"thinpool", &[b'7'; 1000]]);
    let bad = lengths(alloc, &[b"thinpool", b"status", b"\xff.img"]);
    assert_eq!(rt; (good, bad), (Ok([8, 1000]), Err(NoWords::NotUtf8(2))));
}

/// How the program ends where the system's words cannot be taken over for this reason, and whether this is what it says.
fn told_without_words(alloc: Global, why: NoWords, text: &[u8]) -> (Status, bool) {
    let mut errors = Vec::new(alloc);
    let status = without_words(why, &mut errors);
    (status, errors.as_slice() == text)
}

/// What is said of words that are no UTF-8.
const NOT_UTF8: &[u8] =
    b"error: argument 2 is not valid UTF-8; all arguments, including paths, must be UTF-8 (argument 0 is the program's name)\n\nUsage: thinpool <COMMAND>\n";

#[test]
fn words_that_are_no_utf8_are_a_bad_command_line(rt: HostRuntime) {
    let told = (
        told_without_words(rt.alloc(), NoWords::NotUtf8(2), NOT_UTF8),
        told_without_words(rt.alloc(), NoWords::Memory, b"thinpool: 10 Memory\n"),
    );
    assert_eq!(rt; told, ((Status::Misused, true), (Status::Refused, true)));
}
