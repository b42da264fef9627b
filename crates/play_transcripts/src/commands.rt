//! Runs the commands of a transcript.

use crate::world::World;
use std::alloc::Global;
use std::fs::File;
use std::net::{Net, TcpListener, TcpStream};
use std::rt::Files;
use std::sync::Wait;
use std::thread::Threads;
use std::time::Clock;
use std::{fs, io};
use tp_images::MemImages;
use tp_program::{Terminals, program};
use tp_transcript::{Input, Output, Printed, Verb, arguments_of, play_image, verb_of};

/// Runs the program over images in memory. Returns its exit status.
fn run_program<H>(
    rt: &H,
    images: &mut MemImages,
    words: &[&str],
    terminals: Terminals,
    input: &mut Input<'_>,
    output: &mut Output,
    errors: &mut Vec<u8>,
) -> u64
where
    H: Files<File = File>
        + Net<Listener = TcpListener, Stream = TcpStream>
        + Threads
        + Wait
        + Clock
        + Sync
        + Alloc<A = Global>,
{
    let status = program(
        rt,
        images,
        rt.alloc(),
        words,
        terminals,
        (),
        input,
        output,
        errors,
    );
    status.code() as u64
}

/// Runs the program with these arguments and this standard input.
fn run<H>(rt: &H, world: &mut World<'_>, words: &[&str], input: &[u8]) -> Printed
where
    H: Files<File = File>
        + Net<Listener = TcpListener, Stream = TcpStream>
        + Threads
        + Wait
        + Clock
        + Sync
        + Alloc<A = Global>,
{
    let mut input = Input {
        left: input,
        reading: world.reading,
    };
    let mut output = Output {
        taken: Vec::new(rt.alloc()),
        writes: world.writes,
    };
    let mut errors = Vec::new(rt.alloc());
    let status = run_program(
        rt,
        &mut world.images,
        words,
        world.terminals,
        &mut input,
        &mut output,
        &mut errors,
    );
    Printed {
        output: output.taken,
        errors,
        status,
    }
}

/// Runs a command of the player or the program.
fn run_verb<'a, H>(
    rt: &H,
    world: &mut World<'a>,
    verb: Verb<'a>,
    words: &[&str],
    input: &[u8],
) -> io::Result<Printed>
where
    H: Files<File = File>
        + Net<Listener = TcpListener, Stream = TcpStream>
        + Threads
        + Wait
        + Clock
        + Sync
        + Alloc<A = Global>,
{
    match verb {
        Verb::Thinpool => return Ok(run(rt, world, words, input)),
        Verb::Image(image, verb) => {
            let World { images, held, .. } = world;
            return Ok(play_image(rt.alloc(), images, held, image, &verb)?);
        }
        Verb::Write(file) => {
            fs::write(rt, file, input)?;
            world.files.push(file)?;
        }
        Verb::Terminal(input, errors) => world.terminals = Terminals { input, errors },
        Verb::Input(reading) => world.reading = reading,
        Verb::Output(writes) => world.writes = writes,
    }
    Ok(Printed::nothing(rt.alloc()))
}

/// Runs a command. Returns `None` if there is no such command.
pub(crate) fn run_command<'a, H>(
    rt: &H,
    world: &mut World<'a>,
    command: &'a [u8],
    input: &[u8],
) -> io::Result<Option<Printed>>
where
    H: Files<File = File>
        + Net<Listener = TcpListener, Stream = TcpStream>
        + Threads
        + Wait
        + Clock
        + Sync
        + Alloc<A = Global>,
{
    let Some(words) = arguments_of(rt.alloc(), command)? else {
        return Ok(None);
    };
    match verb_of(&words) {
        Some(verb) => Ok(Some(run_verb(rt, world, verb, &words, input)?)),
        None => Ok(None),
    }
}
