//! Plays the given transcripts of the command line.
#![tactic(auto)]

mod commands;
mod files;
mod world;

use crate::files::play_files;
use std::io::{self, Write};
use std::process::ExitCode;
use tp_transcript::Report;

fn main(rt: HostRuntime) -> io::Result<ExitCode> {
    let mut report = Report::new(rt.alloc());
    play_files(&rt, &mut report)?;
    let is_right = report.end()?;
    rt.stdout().write_all(&report.text)?;
    Ok(ExitCode::from(if is_right { 0u8 } else { 1u8 }))
}
