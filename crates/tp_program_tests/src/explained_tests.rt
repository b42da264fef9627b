//! The explanations of files that cannot be opened, with the errors of the system. The other explanations are in the transcript `errors`.

use crate::parts::{Ran, run_on};
use std::alloc::Global;
use std::fs::File;
use std::net::{Net, TcpListener, TcpStream};
use std::process::Abort;
use std::rt::Files;
use std::sync::Wait;
use std::thread::Threads;
use std::time::Clock;
use tp_program::Terminals;

/// Standard error is a terminal.
const TOLD: Terminals = Terminals {
    input: false,
    errors: true,
};

/// A command line, and all that is told of it on standard error.
type Wrong = (&'static [&'static str], &'static str);

/// Files that are missing or are no files.
const FILES: &[Wrong] = &[
    (
        &["thinpool", "status", "missing.img"],
        "thinpool: 5 Fault\nthinpool: missing.img cannot be opened: No such file or directory (os error 2); `thinpool create --help` describes how to create an image\n",
    ),
    (
        &["thinpool", "message", "missing.img", "create_thin 0"],
        "thinpool: 5 Fault\nthinpool: missing.img cannot be opened: No such file or directory (os error 2); `thinpool create --help` describes how to create an image\n",
    ),
    (
        &["thinpool", "check", "missing.img"],
        "thinpool: 5 Fault\nthinpool: missing.img cannot be opened: No such file or directory (os error 2); `thinpool create --help` describes how to create an image\n",
    ),
    (
        &[
            "thinpool",
            "check",
            "missing.img",
            "--clear-needs-check-flag",
        ],
        "thinpool: 5 Fault\nthinpool: missing.img cannot be opened: No such file or directory (os error 2); `thinpool create --help` describes how to create an image\n",
    ),
    (
        &["thinpool", "feed", "missing.img"],
        "thinpool: 5 Fault\nthinpool: missing.img cannot be opened: No such file or directory (os error 2); `thinpool create --help` describes how to create an image\n",
    ),
    (
        &["thinpool", "play", "missing.img", "/dev/null"],
        "thinpool: 5 Fault\nthinpool: missing.img cannot be opened: No such file or directory (os error 2); `thinpool create --help` describes how to create an image\n",
    ),
    (
        &["thinpool", "serve", "missing.img", "127.0.0.1:0", "1"],
        "thinpool: 5 Fault\nthinpool: missing.img cannot be opened: No such file or directory (os error 2); `thinpool create --help` describes how to create an image\n",
    ),
    (
        &[
            "thinpool",
            "format",
            "missing/new.img",
            "128",
            "16",
            "2048",
            "4",
        ],
        "thinpool: 5 Fault\nthinpool: missing/new.img cannot be opened: No such file or directory (os error 2)\n",
    ),
    (
        &["thinpool", "format", ".", "128", "16", "2048", "4"],
        "thinpool: 5 Fault\nthinpool: . cannot be opened: Is a directory (os error 21)\n",
    ),
    (
        &["thinpool", "status", "."],
        "thinpool: 5 Fault\nthinpool: . is neither a regular file nor a block device; an image must be one of them\n",
    ),
    (
        &["thinpool", "check", "."],
        "thinpool: 5 Fault\nthinpool: . is neither a regular file nor a block device; an image must be one of them\n",
    ),
    (
        &["thinpool", "message", ".", "create_thin 0"],
        "thinpool: 5 Fault\nthinpool: . cannot be opened: Is a directory (os error 21)\n",
    ),
    (
        &["thinpool", "play", "mem:", "missing.txt"],
        "thinpool: 5 Fault\nthinpool: script missing.txt cannot be opened: No such file or directory (os error 2)\n",
    ),
    (
        &["thinpool", "play", "mem:", "."],
        "thinpool: 5 Fault\nthinpool: script . cannot be read: it is a directory, or its disk failed\n",
    ),
    (
        &["thinpool", "status", "missing.img", "16777216"],
        "thinpool: 13 BadDeviceId\nthinpool: volume 16777216: a volume id must be in 0..=16777215\n",
    ),
];

/// Runs the program over words and an input, on these terminals.
fn ran<H>(rt: &H, words: &[&str], terminals: Terminals, input: &[u8]) -> Ran
where
    H: Files<File = File>
        + Net<Listener = TcpListener, Stream = TcpStream>
        + Threads
        + Wait
        + Clock
        + Sync
        + Alloc<A = Global>,
{
    let mut input = input;
    run_on(rt, words, terminals, &mut input)
}

/// Whether the program refuses what these words ask for, and tells this of it.
fn is_explained<H>(rt: &H, words: &[&str], text: &str) -> bool
where
    H: Files<File = File>
        + Net<Listener = TcpListener, Stream = TcpStream>
        + Threads
        + Wait
        + Clock
        + Sync
        + Alloc<A = Global>,
{
    let ran = ran(rt, words, TOLD, b"");
    ran.status.code() == 1 && ran.errors.as_slice() == text.as_bytes()
}

/// The first of these of which another thing is told.
fn first_unexplained<H>(rt: &H, wrong: &[Wrong]) -> Option<usize>
where
    H: Files<File = File>
        + Net<Listener = TcpListener, Stream = TcpStream>
        + Threads
        + Wait
        + Clock
        + Sync
        + Alloc<A = Global>,
{
    for (i, (words, text)) in wrong.iter().enumerate() {
        if !is_explained(rt, words, text) {
            return Some(i);
        }
    }
    None
}

/// Asserts that of each of these its text is told.
fn explain<H>(rt: &H, wrong: &[Wrong])
where
    H: Files<File = File>
        + Net<Listener = TcpListener, Stream = TcpStream>
        + Threads
        + Wait
        + Clock
        + Sync
        + Alloc<A = Global>
        + Abort,
{
    let untold = first_unexplained(rt, wrong);
    assert_eq!(rt; untold, None);
}

#[test]
fn each_file_that_is_not_opened_is_told(rt: HostRuntime) {
    explain(&rt, FILES);
}
