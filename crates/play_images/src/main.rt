//! Plays the given scripts of changed images.
#![tactic(auto)]

use std::io;
use std::process::ExitCode;
use tp_player::play_scripts;

fn main(rt: HostRuntime) -> io::Result<ExitCode> {
    play_scripts(&rt, &mut rt.stdout())
}
