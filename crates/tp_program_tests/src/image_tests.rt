//! Tests of the commands on real files and their locks. Each test has a file of its own, since tests run concurrently. The transcript
//! `images` has the commands on images in memory.

use crate::parts::{CLIENT_GO, Call, GO_REPLIES, GREETING, MADE, Part, STRICT};
use crate::steps::{Step, take_steps};
use std::test::Fail;

/// Pools of four data blocks, and volumes of 16.
const SIZES: &[&str] = &["128", "16", "2048", "4"];

pub(crate) const FRESH: &str = "0 9/2048 0/4 - rw no_discard_passdown error_if_no_space - 512\n";

pub(crate) const FORMAT: Call = ("format", SIZES, 0, FRESH);

/// The bytes of such an image.
const BYTES: u64 = 2048 * 4096 + 4 * 65536;

/// Clients that fill the first sector of volume 0, and what they are sent.
const FILLS_FIRST: &[Part<'static>] = &[
    Part::Text(CLIENT_GO),
    Part::Ask(1, 1, 0, 512),
    Part::Fill(0x61, 512),
];

const FILLS_SECOND: &[Part<'static>] = &[
    Part::Text(CLIENT_GO),
    Part::Ask(1, 1, 0, 512),
    Part::Fill(0x62, 512),
];

const FILLED: &[Part<'static>] = &[
    Part::Text(GREETING),
    Part::Text(GO_REPLIES),
    Part::Reply(0, 1),
];

/// A client that reads that sector, and what it is sent.
const READS: &[Part<'static>] = &[Part::Text(CLIENT_GO), Part::Ask(0, 2, 0, 512)];

const READ: &[Part<'static>] = &[
    Part::Text(GREETING),
    Part::Text(GO_REPLIES),
    Part::Reply(0, 2),
    Part::Fill(0x62, 512),
];

/// A volume with one block, and a snapshot of it.
const SHARED: &[Call] = &[
    (
        "status",
        &[],
        0,
        "0 10/2048 1/4 - rw no_discard_passdown error_if_no_space - 512\n",
    ),
    ("message", &["create_snap 1 0"], 0, "ok\n"),
    ("status", &["1"], 0, "128 127\n"),
    ("check", &[], 0, "clean\n"),
];

/// Two volumes, each with a block of its own, of which one is removed.
const ALONE: &[Call] = &[
    (
        "status",
        &[],
        0,
        "0 11/2048 2/4 - rw no_discard_passdown error_if_no_space - 512\n",
    ),
    ("check", &[], 0, "clean\n"),
    ("message", &["delete 1"], 0, "ok\n"),
    (
        "status",
        &[],
        0,
        "0 10/2048 1/4 - rw no_discard_passdown error_if_no_space - 512\n",
    ),
    ("check", &[], 0, "clean\n"),
];

/// Two clients of an image that write, one that reads behind them, and the calls before, between and behind them.
const FED: &[Step] = &[
    Step::Calls(MADE),
    Step::Fed(STRICT, FILLS_FIRST, FILLED),
    Step::Calls(SHARED),
    Step::Fed(STRICT, FILLS_SECOND, FILLED),
    Step::Fed(STRICT, READS, READ),
    Step::Calls(ALONE),
];

/// What one program writes and keeps is read by the next one, and a snapshot shares it until then.
#[test]
fn a_file_is_fed(rt: HostRuntime) -> Result<(), Fail> {
    take_steps(&rt, "fed.img", FED)
}

/// What is refused while another program works on the image.
const IN_USE: &[Call] = &[
    (
        "status",
        &["--explain"],
        1,
        "thinpool: 5 Fault\nthinpool: used.img is in use by another process, which holds its lock\n",
    ),
    ("check", &[], 1, "thinpool: 5 Fault\n"),
    ("status", &[], 1, "thinpool: 5 Fault\n"),
    ("message", &["create_thin 0"], 1, "thinpool: 5 Fault\n"),
    (
        "format",
        &["128", "16", "2048", "8"],
        1,
        "thinpool: 5 Fault\n",
    ),
];

/// The image is clean and is listed beside a program that reads it, and as it was behind what is refused beside one that works on it.
const USED: &[Step] = &[
    Step::Calls(&[FORMAT]),
    Step::BesideReader(&[
        ("check", &[], 0, "clean\n"),
        ("ls", &[], 0, "ID SIZE MAPPED EXCLUSIVE\n"),
    ]),
    Step::BesideWriter(IN_USE),
    Step::Calls(&[("status", &[], 0, FRESH)]),
    Step::Bytes(BYTES),
];

/// A check and a listing share the file with checks and listings alone. What is refused leaves the file as it was.
#[test]
fn image_in_use_is_left_alone(rt: HostRuntime) -> Result<(), Fail> {
    take_steps(&rt, "used.img", USED)
}
