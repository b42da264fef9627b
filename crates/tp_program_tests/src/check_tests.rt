//! Tests of `check` on image files. Each call is a program of its own; each test has a file of its own, for they run side by side.

use crate::parts::Call;
use crate::steps::{Step, take_steps};
use std::test::Fail;

/// Pools of four data blocks, and volumes of 16.
const SIZES: &[&str] = &["128", "16", "1032", "4"];

const CLEAR: &[&str] = &["--clear-needs-check-flag"];

const FRESH: &str = "0 9/1032 0/4 - rw no_discard_passdown error_if_no_space - 512\n";

const FORMAT: Call = ("format", SIZES, 0, FRESH);

/// An image that another one reads.
const SHARED: &[Call] = &[
    ("check", &[], 0, "clean\n"),
    ("check", CLEAR, 1, "thinpool: 5 Fault\n"),
];

/// A new image, and calls beside that one.
const IN_USE: &[Step] = &[Step::Calls(&[FORMAT]), Step::BesideReader(SHARED)];

/// Without the flag a check shares the file with other checks.
#[test]
fn image_that_is_checked_is_not_cleared(rt: HostRuntime) -> Result<(), Fail> {
    take_steps(&rt, "shared.img", IN_USE)
}
