//! The commands of the program over an image in memory.

use crate::commands::{
    Ask, CHECK, CREATE, CREATE_SECOND, FORMAT, IMAGE, Ran, is_done, outcome_behind, run,
};
use crate::outcome::Outcome;
use crate::talk::session_texts;
use std::alloc::Global;
use std::fs::{File, remove_file};
use std::io;
use std::io::Write;
use std::net::{Net, TcpListener, TcpStream};
use std::rt::Files;
use std::sync::Wait;
use std::thread::Threads;
use std::time::Clock;
use tp_images::{Images, MemImages};

/// What making a new image comes to that ended so. It has its size from when it was made on, also where formatting is refused; where there is no memory for
/// the image, it is not there.
fn outcome_of_made<H>(rt: &H, images: &mut MemImages, ask: &Ask<'_>, ran: &Ran) -> Outcome
where
    H: Files<File = File>
        + Net<Listener = TcpListener, Stream = TcpStream>
        + Threads
        + Wait
        + Clock
        + Sync
        + Alloc<A = Global>,
{
    if ran.is_done(ask) {
        return Outcome::Done;
    }
    let is_untouched = is_unwritten(images);
    let is_there = images.length(IMAGE).is_some();
    let is_done = is_done(rt, images, ask);
    if ran.is_memory(ask) {
        return Outcome::refused(is_untouched, is_done);
    }
    Outcome::failed(ran.is_fault() && is_done && !(is_there && is_untouched))
}

/// The same where it is made now.
fn outcome_of_new<H>(rt: &H, images: &mut MemImages, ask: &Ask<'_>) -> Outcome
where
    H: Files<File = File>
        + Net<Listener = TcpListener, Stream = TcpStream>
        + Threads
        + Wait
        + Clock
        + Sync
        + Alloc<A = Global>,
{
    match run(rt, images, ask) {
        Some(ran) => outcome_of_made(rt, images, ask, &ran),
        None => Outcome::Before,
    }
}

/// Whether no sector of the image was written.
fn is_unwritten(images: &mut MemImages) -> bool {
    let Ok(disk) = images.open(IMAGE) else {
        return true;
    };
    let is_unwritten = (0..8448).all(|at| disk.writes(at) == 0);
    images.close(IMAGE, disk);
    is_unwritten
}

#[test]
fn command_format(rt: HostRuntime) {
    let mut images = MemImages::new(rt.alloc());
    let outcome = outcome_of_new(&rt, &mut images, &FORMAT);
    assert!(rt; outcome.is_right(&mut rt.stdout()));
}

#[test]
fn command_create(rt: HostRuntime) {
    let ask = Ask {
        words: &[
            "thinpool",
            "create",
            IMAGE,
            "--size",
            "256K",
            "--volume-size",
            "1M",
            "--volumes",
            "2",
        ],
        input: b"",
        output: b"128 16 1032 4\n0 9/1032 0/4 - rw no_discard_passdown error_if_no_space - 512\n",
    };
    let mut images = MemImages::new(rt.alloc());
    let outcome = outcome_of_new(&rt, &mut images, &ask);
    assert!(rt; outcome.is_right(&mut rt.stdout()));
}

#[test]
fn command_message(rt: HostRuntime) {
    let outcome = outcome_behind(&rt, &[FORMAT], &CREATE);
    assert!(rt; outcome.is_right(&mut rt.stdout()));
}

#[test]
fn command_status(rt: HostRuntime) {
    let ask = Ask {
        words: &["thinpool", "status", IMAGE],
        input: b"",
        output: b"0 10/1032 0/4 - rw no_discard_passdown error_if_no_space - 512\n",
    };
    let outcome = outcome_behind(&rt, &[FORMAT, CREATE], &ask);
    assert!(rt; outcome.is_right(&mut rt.stdout()));
}

#[test]
fn command_status_of_a_volume(rt: HostRuntime) {
    let ask = Ask {
        words: &["thinpool", "status", IMAGE, "0"],
        input: b"",
        output: b"0 -\n",
    };
    let outcome = outcome_behind(&rt, &[FORMAT, CREATE], &ask);
    assert!(rt; outcome.is_right(&mut rt.stdout()));
}

#[test]
fn command_check(rt: HostRuntime) {
    let outcome = outcome_behind(&rt, &[FORMAT, CREATE], &CHECK);
    assert!(rt; outcome.is_right(&mut rt.stdout()));
}

#[test]
fn command_check_and_clear(rt: HostRuntime) {
    let ask = Ask {
        words: &["thinpool", "check", IMAGE, "--clear-needs-check-flag"],
        input: b"",
        output: b"clean\n",
    };
    let outcome = outcome_behind(&rt, &[FORMAT, CREATE], &ask);
    assert!(rt; outcome.is_right(&mut rt.stdout()));
}

/// The call that feeds the image a session, of which these are the texts.
fn feed_of<'a>(texts: &'a (Vec<u8>, Vec<u8>)) -> Ask<'a> {
    Ask {
        words: &["thinpool", "feed", IMAGE],
        input: &texts.0,
        output: &texts.1,
    }
}

/// What a listing comes to, over an image with volume 0, of which a sector is written, and an empty volume 1.
fn outcome_of_listing<H>(rt: &H, ask: &Ask<'_>) -> Outcome
where
    H: Files<File = File>
        + Net<Listener = TcpListener, Stream = TcpStream>
        + Threads
        + Wait
        + Clock
        + Sync
        + Alloc<A = Global>,
{
    let Ok(texts) = session_texts(rt.alloc()) else {
        return Outcome::Before;
    };
    let feed = feed_of(&texts);
    outcome_behind(rt, &[FORMAT, CREATE, CREATE_SECOND, feed], ask)
}

#[test]
fn command_ls(rt: HostRuntime) {
    let ask = Ask {
        words: &["thinpool", "ls", IMAGE],
        input: b"",
        output: b"ID SIZE MAPPED EXCLUSIVE\n0 1048576 65536 65536\n1 1048576 0 0\n",
    };
    let outcome = outcome_of_listing(&rt, &ask);
    assert!(rt; outcome.is_right(&mut rt.stdout()));
}

#[test]
fn command_map(rt: HostRuntime) {
    let ask = Ask {
        words: &["thinpool", "map", IMAGE, "0"],
        input: b"",
        output: b"0 65536\n",
    };
    let outcome = outcome_of_listing(&rt, &ask);
    assert!(rt; outcome.is_right(&mut rt.stdout()));
}

#[test]
fn command_delta(rt: HostRuntime) {
    let ask = Ask {
        words: &["thinpool", "delta", IMAGE, "1", "0"],
        input: b"",
        output: b"0 65536\n65536 983040 hole\n",
    };
    let outcome = outcome_of_listing(&rt, &ask);
    assert!(rt; outcome.is_right(&mut rt.stdout()));
}

#[test]
fn command_free(rt: HostRuntime) {
    let ask = Ask {
        words: &["thinpool", "free", IMAGE],
        input: b"",
        output: b"4292608 196608\n",
    };
    let outcome = outcome_of_listing(&rt, &ask);
    assert!(rt; outcome.is_right(&mut rt.stdout()));
}

/// What a session over the image comes to.
fn outcome_of_feed<H>(rt: &H) -> Outcome
where
    H: Files<File = File>
        + Net<Listener = TcpListener, Stream = TcpStream>
        + Threads
        + Wait
        + Clock
        + Sync
        + Alloc<A = Global>,
{
    match session_texts(rt.alloc()) {
        Ok(texts) => outcome_behind(rt, &[FORMAT, CREATE], &feed_of(&texts)),
        Err(_) => Outcome::Before,
    }
}

#[test]
fn command_feed(rt: HostRuntime) {
    let outcome = outcome_of_feed(&rt);
    assert!(rt; outcome.is_right(&mut rt.stdout()));
}

/// A script that changes nothing: of a session without a volume, of the pool, and of a message that is refused.
const SCRIPT: &[u8] =
    b"open 3\nstatus\nthin 0\nmessage create_thin 0\nbytes 3 00000003\nhangup 3\nthin 7\n";

/// What that prints.
const PLAYED: &[u8] = b"sent 3 4e42444d4147494349484156454f50540003
0 10/1032 0/4 - rw no_discard_passdown error_if_no_space - 512
0 -
refused 14
end 3
refused 15
";

/// What a call over a fresh pool in memory came to, of which nothing is left.
fn outcome_of_left<H>(rt: &H, images: &mut MemImages, ask: &Ask<'_>, ran: &Ran) -> Outcome
where
    H: Files<File = File>
        + Net<Listener = TcpListener, Stream = TcpStream>
        + Threads
        + Wait
        + Clock
        + Sync
        + Alloc<A = Global>,
{
    if ran.is_done(ask) {
        return Outcome::Done;
    }
    let is_done = is_done(rt, images, ask);
    if ran.is_memory(ask) {
        return Outcome::refused(true, is_done);
    }
    Outcome::failed(ran.is_fault() && is_done)
}

/// What such a call comes to.
fn outcome_beside<H>(rt: &H, images: &mut MemImages, ask: &Ask<'_>) -> Outcome
where
    H: Files<File = File>
        + Net<Listener = TcpListener, Stream = TcpStream>
        + Threads
        + Wait
        + Clock
        + Sync
        + Alloc<A = Global>,
{
    match run(rt, images, ask) {
        Some(ran) => outcome_of_left(rt, images, ask, &ran),
        None => Outcome::Before,
    }
}

/// The same where there are no images.
fn outcome_of_memory<H>(rt: &H, ask: &Ask<'_>) -> Outcome
where
    H: Files<File = File>
        + Net<Listener = TcpListener, Stream = TcpStream>
        + Threads
        + Wait
        + Clock
        + Sync
        + Alloc<A = Global>,
{
    outcome_beside(rt, &mut MemImages::new(rt.alloc()), ask)
}

/// What a session over such a pool comes to.
fn outcome_of_feed_in_memory<H>(rt: &H) -> Outcome
where
    H: Files<File = File>
        + Net<Listener = TcpListener, Stream = TcpStream>
        + Threads
        + Wait
        + Clock
        + Sync
        + Alloc<A = Global>,
{
    let Ok((input, output)) = session_texts(rt.alloc()) else {
        return Outcome::Before;
    };
    let ask = Ask {
        words: &["thinpool", "feed", "mem:"],
        input: &input,
        output: &output,
    };
    outcome_of_memory(rt, &ask)
}

#[test]
fn command_feed_in_memory(rt: HostRuntime) {
    let outcome = outcome_of_feed_in_memory(&rt);
    assert!(rt; outcome.is_right(&mut rt.stdout()));
}

/// What that prints of a fresh pool in memory, which has volume 0 too.
const PLAYED_IN_MEMORY: &[u8] = b"sent 3 4e42444d4147494349484156454f50540003
0 10/2048 0/4 - rw no_discard_passdown error_if_no_space - 512
0 -
refused 14
end 3
refused 15
";

/// Makes a file of this name with these bytes.
fn write_script<F: Files<File = File>>(files: &F, name: &str, script: &[u8]) -> io::Result<()> {
    let mut file = File::create(files, name)?;
    file.write_all(script)
}

/// What playing that script over the image comes to.
fn outcome_of_play<H>(rt: &H) -> Outcome
where
    H: Files<File = File>
        + Net<Listener = TcpListener, Stream = TcpStream>
        + Threads
        + Wait
        + Clock
        + Sync
        + Alloc<A = Global>,
{
    let name = "refused.script";
    if write_script(rt, name, SCRIPT).is_err() {
        return Outcome::Before;
    }
    let ask = Ask {
        words: &["thinpool", "play", IMAGE, name],
        input: b"",
        output: PLAYED,
    };
    let outcome = outcome_behind(rt, &[FORMAT, CREATE], &ask);
    let _ = remove_file(rt, name);
    outcome
}

#[test]
fn command_play(rt: HostRuntime) {
    let outcome = outcome_of_play(&rt);
    assert!(rt; outcome.is_right(&mut rt.stdout()));
}

/// What playing it over a fresh pool in memory comes to.
fn outcome_of_play_in_memory<H>(rt: &H) -> Outcome
where
    H: Files<File = File>
        + Net<Listener = TcpListener, Stream = TcpStream>
        + Threads
        + Wait
        + Clock
        + Sync
        + Alloc<A = Global>,
{
    let name = "refused.fresh";
    if write_script(rt, name, SCRIPT).is_err() {
        return Outcome::Before;
    }
    let ask = Ask {
        words: &["thinpool", "play", "mem:", name],
        input: b"",
        output: PLAYED_IN_MEMORY,
    };
    let outcome = outcome_of_memory(rt, &ask);
    let _ = remove_file(rt, name);
    outcome
}

#[test]
fn command_play_in_memory(rt: HostRuntime) {
    let outcome = outcome_of_play_in_memory(&rt);
    assert!(rt; outcome.is_right(&mut rt.stdout()));
}
