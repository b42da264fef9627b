//! The programs of a thin pool, with the system's words and streams.
#![tactic(auto)]

use std::io::IsTerminal;
use std::process::ExitCode;
use tp_images::FileImages;
use tp_program::{Terminals, Timed, program, stand_in, without_streams, without_words};
use tp_progress::Teller;
use tp_words::words;

/// What is told on standard error waits so many milliseconds for its reader.
const PATIENCE: u16 = 5000;

fn main(rt: HostRuntime) -> ExitCode {
    // It is closed at the end.
    let _stand = match stand_in(&rt) {
        Ok(stand) => stand,
        Err(error) => return ExitCode::from(without_streams(&error, &mut rt.stderr()).code()),
    };
    let terminals = Terminals {
        input: rt.stdin().is_terminal(),
        errors: rt.stderr().is_terminal(),
    };
    let status = match words(&rt, rt.alloc()) {
        Ok(words) => program(
            &rt,
            &mut FileImages::new(&rt),
            rt.alloc(),
            &words,
            terminals,
            Teller::new(&rt, Timed::new(rt.stderr(), PATIENCE), terminals.errors),
            &mut rt.stdin(),
            &mut rt.stdout(),
            &mut Timed::new(rt.stderr(), PATIENCE),
        ),
        Err(why) => without_words(why, &mut rt.stderr()),
    };
    ExitCode::from(status.code())
}
