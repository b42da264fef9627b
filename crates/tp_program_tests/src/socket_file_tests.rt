//! Tests of socket files: one that a dead server left is replaced, and nothing else is.

use crate::parts::{CLEAN, GREETING, MADE, Part, run};
use crate::run_tests::is_stopped;
use crate::servers::is_exchanged;
use crate::steps::{make_calls, make_last_calls};
use std::alloc::Global;
use std::fs::{self, File};
use std::io;
use std::net::{Net, TcpListener, TcpStream};
use std::os::fd::OwnedFd;
use std::os::unix::fs::{MetadataExt, PermissionsExt, chown};
use std::os::unix::net::{UnixListener, UnixStream};
use std::rt::Files;
use std::sync::Wait;
use std::test::Fail;
use std::thread::{self, Threads, join};
use std::time::{Clock, Duration};
use tp_program::Status;

/// The socket files of clients, which a dead server left, and of control lines.
const CLIENTS: &str = "clients.sock";

const CONTROL: &str = "control.sock";

/// Runs the program that serves clients of an image at both, which are of this group, and gives
/// volume 0 to those who name none: how it ends.
fn serve<H>(rt: &H, image: &str, group: &str) -> Status
where
    H: Files<File = File>
        + Net<Listener = TcpListener, Stream = TcpStream>
        + Threads
        + Wait
        + Clock
        + Sync
        + Alloc<A = Global>,
{
    let words = [
        "thinpool",
        "run",
        image,
        "--listen",
        "unix:clients.sock",
        "--control",
        "unix:control.sock",
        "--default",
        "0",
        "--socket-group",
        group,
    ];
    let mut input: &[u8] = b"";
    run(rt, &words, &mut input).status
}

/// Waits until somebody answers at both files: ten seconds at most.
fn wait_for_server<H>(rt: &H)
where
    H: Net + Clock,
{
    for _ in 0..200 {
        if UnixStream::connect(rt, CONTROL).is_ok() {
            return;
        }
        thread::sleep(rt, Duration::from_millis(50));
    }
}

/// A connection to a socket file.
fn connect<N: Net>(net: &N, path: &str) -> io::Result<TcpStream> {
    Ok(TcpStream::from(OwnedFd::from(UnixStream::connect(net, path)?)))
}

/// What a client sends who goes to no named volume by EXPORT_NAME.
const NAMES_NONE: &[u8] = b"\x00\x00\x00\x03IHAVEOPT\x00\x00\x00\x01\x00\x00\x00\x00";

/// What it is sent behind the greeting: that its volume has 1 MiB, and the flags of those who are offered what `run` offers.
const DEFAULT_GIVEN: &[u8] = b"\x00\x00\x00\x00\x00\x10\x00\x00\x01\x6d";

/// Whether it is.
fn is_default_given<H>(rt: &H) -> io::Result<bool>
where
    H: Net + Alloc<A = Global>,
{
    let mut client = connect(rt, CLIENTS)?;
    let wanted = [Part::Text(GREETING), Part::Text(DEFAULT_GIVEN)];
    is_exchanged(rt.alloc(), &mut client, &[Part::Text(NAMES_NONE)], &wanted)
}

/// Whether it is answered that all is to stop now.
fn is_stopped_there<H>(rt: &H) -> io::Result<bool>
where
    H: Net + Alloc<A = Global>,
{
    let mut lines = connect(rt, CONTROL)?;
    is_stopped(rt.alloc(), &mut lines)
}

/// Both, while it serves.
fn told_at_files<H>(rt: &H) -> io::Result<[bool; 2]>
where
    H: Net + Clock + Alloc<A = Global>,
{
    wait_for_server(rt);
    let is_given = is_default_given(rt);
    let is_stopped = is_stopped_there(rt)?;
    Ok([is_given?, is_stopped])
}

/// Leaves a socket file on which nobody answers.
fn leave_stale<H>(rt: &H, path: &str) -> io::Result<()>
where
    H: Files + Net,
{
    drop(UnixListener::bind(rt, path)?);
    Ok(())
}

/// A group that may be given to this file: the one behind its own, where the system lets it, and
/// else its own.
fn group_for<F: Files>(files: &F, path: &str) -> io::Result<u32> {
    let own = fs::symlink_metadata(files, path)?.gid();
    let next = own.saturating_add(1);
    if chown(files, path, None, Some(next)).is_ok() {
        return Ok(next);
    }
    Ok(own)
}

/// What is told while it serves at files of a group, and how the program ends.
fn told_of_group<H>(rt: &H, image: &str, group: u32) -> Result<(Status, [bool; 2]), Fail>
where
    H: Files<File = File>
        + Net<Listener = TcpListener, Stream = TcpStream>
        + Threads
        + Wait
        + Clock
        + Sync
        + Alloc<A = Global>,
{
    let text = format!(in rt.alloc(); "{group}")?;
    let (told, status) = join(rt, || told_at_files(rt), || serve(rt, image, &text));
    Ok((status, told?))
}

/// The same where such a file was left before; and the group.
fn told_of_server<H>(rt: &H, image: &str) -> Result<((Status, [bool; 2]), u32), Fail>
where
    H: Files<File = File>
        + Net<Listener = TcpListener, Stream = TcpStream>
        + Threads
        + Wait
        + Clock
        + Sync
        + Alloc<A = Global>,
{
    leave_stale(rt, CLIENTS)?;
    let group = group_for(rt, CLIENTS)?;
    Ok((told_of_group(rt, image, group)?, group))
}

/// Whether a file is for its owner alone, and of this group. It is removed.
fn is_for_owner<F: Files>(files: &F, path: &str, group: u32) -> io::Result<bool> {
    let of_group = fs::symlink_metadata(files, path)?.gid();
    let mode = fs::symlink_metadata(files, path)?.permissions().mode();
    fs::remove_file(files, path)?;
    Ok(mode & 0o777 == 0o600 && of_group == group)
}

/// Whether both files are so. They are removed.
fn are_for_owner<F: Files>(files: &F, group: u32) -> io::Result<[bool; 2]> {
    Ok([
        is_for_owner(files, CLIENTS, group)?,
        is_for_owner(files, CONTROL, group)?,
    ])
}

/// A socket file that a dead server left is replaced, and each is for its owner alone, and of the
/// group that was named by its number. Who names no volume has the default one, and is offered
/// several connections.
#[test]
fn socket_files_are_taken_over_from_the_dead(rt: HostRuntime) -> Result<(), Fail> {
    make_calls(&rt, "files.img", MADE)?;
    let (told, group) = told_of_server(&rt, "files.img")?;
    let are_for_owner = are_for_owner(&rt, group)?;
    make_last_calls(&rt, "files.img", CLEAN)?;
    assert_eq!(rt;
        (told, are_for_owner),
        ((Status::Done, [true; 2]), [true; 2])
    );
    Ok(())
}

/// Whether the program that is to serve clients of an image at a place is refused, and says that it cannot listen there.
fn is_refused_at<H>(rt: &H, image: &str, place: &str, said: &str) -> bool
where
    H: Files<File = File>
        + Net<Listener = TcpListener, Stream = TcpStream>
        + Threads
        + Wait
        + Clock
        + Sync
        + Alloc<A = Global>,
{
    let words = ["thinpool", "--explain", "run", image, "--listen", place];
    let mut input: &[u8] = b"";
    let ran = run(rt, &words, &mut input);
    let told = std::str::from_utf8(&ran.errors).unwrap_or("");
    ran.status == Status::Refused && told.starts_with(said)
}

/// The file of a server that lives: the test itself listens there.
const LIVING: &str = "living.sock";

/// Whether it is refused at that file, and the other server listens there still.
fn told_beside<H>(rt: &H, image: &str) -> [bool; 2]
where
    H: Files<File = File>
        + Net<Listener = TcpListener, Stream = TcpStream>
        + Threads
        + Wait
        + Clock
        + Sync
        + Alloc<A = Global>,
{
    let said = "thinpool: 5 Fault\nthinpool: cannot listen on unix:living.sock: ";
    let is_refused = is_refused_at(rt, image, "unix:living.sock", said);
    [is_refused, UnixStream::connect(rt, LIVING).is_ok()]
}

/// The same, where the other server is gone behind it.
fn told_of_living<H>(rt: &H, image: &str) -> Result<[bool; 2], Fail>
where
    H: Files<File = File>
        + Net<Listener = TcpListener, Stream = TcpStream>
        + Threads
        + Wait
        + Clock
        + Sync
        + Alloc<A = Global>,
{
    let other = UnixListener::bind(rt, LIVING)?;
    let told = told_beside(rt, image);
    drop(other);
    fs::remove_file(rt, LIVING)?;
    Ok(told)
}

/// Neither a living server's socket file nor what is no socket is taken: here the image itself, which stays as it is.
#[test]
fn files_of_the_living_are_not_taken(rt: HostRuntime) -> Result<(), Fail> {
    make_calls(&rt, "beside.img", MADE)?;
    let living = told_of_living(&rt, "beside.img")?;
    let said = "thinpool: 5 Fault\nthinpool: cannot listen on unix:beside.img: ";
    let is_refused = is_refused_at(&rt, "beside.img", "unix:beside.img", said);
    make_last_calls(&rt, "beside.img", CLEAN)?;
    assert_eq!(rt; (living, is_refused), ([true; 2], true));
    Ok(())
}
