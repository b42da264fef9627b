//! Plays transcripts, case by case and command by command.

use crate::commands::run_command;
use crate::world::World;
use std::alloc::Global;
use std::fs::File;
use std::net::{Net, TcpListener, TcpStream};
use std::rt::{Env, Files};
use std::sync::Wait;
use std::thread::Threads;
use std::time::Clock;
use std::{env, fs, io};
use tp_transcript::{Report, Step, steps_of};

/// Plays a command. Returns whether it printed what it must print.
fn play_step<'a, H>(
    rt: &H,
    report: &mut Report,
    file: &str,
    world: &mut World<'a>,
    step: &Step<'a>,
) -> io::Result<bool>
where
    H: Files<File = File>
        + Net<Listener = TcpListener, Stream = TcpStream>
        + Threads
        + Wait
        + Clock
        + Sync
        + Alloc<A = Global>,
{
    let command = step.command.unwrap_or(b"");
    match run_command(rt, world, command, &step.input)? {
        Some(printed) => Ok(report.compare(file, step, &printed)?),
        None => {
            report.fail_line(file, step.number)?;
            Ok(false)
        }
    }
}

/// Plays the commands of a case up to the first that is wrong.
fn play_steps<'a, H>(
    rt: &H,
    report: &mut Report,
    file: &str,
    world: &mut World<'a>,
    steps: &[Step<'a>],
) -> io::Result<()>
where
    H: Files<File = File>
        + Net<Listener = TcpListener, Stream = TcpStream>
        + Threads
        + Wait
        + Clock
        + Sync
        + Alloc<A = Global>,
{
    for step in steps {
        if !play_step(rt, report, file, world, step)? {
            break;
        }
    }
    Ok(())
}

/// Plays a case in a world of its own, and removes the files that it wrote.
fn play_case<'a, H>(rt: &H, report: &mut Report, file: &str, steps: &[Step<'a>]) -> io::Result<()>
where
    H: Files<File = File>
        + Net<Listener = TcpListener, Stream = TcpStream>
        + Threads
        + Wait
        + Clock
        + Sync
        + Alloc<A = Global>,
{
    report.count_case();
    let mut world = World::new(rt.alloc());
    play_steps(rt, report, file, &mut world, steps)?;
    // A file that was written twice is removed once.
    for written in &world.files {
        let _ = fs::remove_file(rt, *written);
    }
    Ok(())
}

/// Returns whether a case ends before this place.
fn ends_case(steps: &[Step<'_>], place: usize) -> bool {
    match steps.get(place) {
        Some(step) => step.command.is_none(),
        None => true,
    }
}

/// Plays the cases of a transcript.
fn play_cases<H>(rt: &H, report: &mut Report, file: &str, steps: &[Step<'_>]) -> io::Result<()>
where
    H: Files<File = File>
        + Net<Listener = TcpListener, Stream = TcpStream>
        + Threads
        + Wait
        + Clock
        + Sync
        + Alloc<A = Global>,
{
    let mut from: usize = 0;
    for place in 0..steps.len().saturating_add(1) {
        if ends_case(steps, place) {
            if from < place {
                let case = steps.get(from..place).unwrap_or(&[]);
                play_case(rt, report, file, case)?;
            }
            from = place.saturating_add(1);
        }
    }
    Ok(())
}

fn play_file<H>(rt: &H, report: &mut Report, file: &str, text: &[u8]) -> io::Result<()>
where
    H: Files<File = File>
        + Net<Listener = TcpListener, Stream = TcpStream>
        + Threads
        + Wait
        + Clock
        + Sync
        + Alloc<A = Global>,
{
    let earlier = report.counts();
    match steps_of(rt.alloc(), text)? {
        Ok(steps) => play_cases(rt, report, file, &steps)?,
        Err(number) => report.fail_line(file, number)?,
    }
    Ok(report.end_file(file, earlier)?)
}

/// Plays the transcripts that the arguments name.
pub(crate) fn play_files<H>(rt: &H, report: &mut Report) -> io::Result<()>
where
    H: Files<File = File>
        + Net<Listener = TcpListener, Stream = TcpStream>
        + Threads
        + Wait
        + Clock
        + Sync
        + Env
        + Alloc<A = Global>,
{
    for name in env::args(rt)?.skip(1) {
        let text = fs::read(rt, name.as_str())?;
        play_file(rt, report, name.as_str(), &text)?;
    }
    Ok(())
}
