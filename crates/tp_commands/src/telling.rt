//! What the programs print: status lines, the answers to messages, and what a check finds.

ghost use Rattle.std.specs.Prelude.{◌≡◌, ◌+◌, ◌++◌, ◌≤◌, length, take};
ghost use Rattle.tp_model.specs.Calls.{Status, ThinStatus};
ghost use Rattle.tp_msg.specs.Asked.{call_of};
ghost use Rattle.tp_served.specs.AtMetadata.{cached};
ghost use Rattle.tp_commands.specs.Images.{PrintsCheck};
ghost use Rattle.tp_commands.specs.Printing.{IsLineGiven, Prints, PrintsCall, newline, status_call};

use std::alloc::Global;
use tp_check::check;
use tp_disk::Disk;
use tp_hub::{Stream, send_all};
use tp_meta::Metadata;
use tp_model::{DevId, Refusal};
use tp_msg::{LineBuffer, Managed, Message, read_message};
use tp_served::Served;

/// The most bytes of a status line, and with its newline.
const LINE: usize = 192;

const ENDED_LINE: usize = 193;

/// Prints bytes: `Fault` where the stream fails.
fn print<S: Stream>(stream: &mut S, bytes: &[u8]) -> Result<(), Refusal>
    ensures { Prints (S.calls stream.old) (S.calls stream.new) bytes.now result }
{
    if send_all(stream, bytes) {
        Ok(())
    } else {
        Err(Refusal::Fault)
    }
}

/// Copies bytes to a place of a buffer, and tells where they end.
fn copy(out: &mut [u8], at: usize, bytes: &[u8]) -> usize
    requires { at + length bytes.now ≤ length out.old }
    ensures line { take result out.new ≡ take at out.old ++ bytes.now }
    ensures end { result ≡ at + length bytes.now }
    ensures len { length out.new ≡ length out.old }
{
    let end = at + bytes.len();
    out[at..end].copy_from_slice(bytes);
    end
}

/// Copies a line with a newline behind it, and tells where it ends.
fn end_line(out: &mut [u8], line: &[u8]) -> usize
    requires { length line.now + 1 ≤ length out.old }
    ensures line { take result out.new ≡ line.now ++ newline }
    ensures end { result ≡ length line.now + 1 }
    ensures len { length out.new ≡ length out.old }
{
    let end = copy(out, 0, line);
    copy(out, end, b"\n")
}

/// Prints a line with a newline.
pub fn print_line<S: Stream>(stream: &mut S, line: &[u8]) -> Result<(), Refusal>
    requires { length line.now ≤ 192 }
    ensures { Prints (S.calls stream.old) (S.calls stream.new) (line.now ++ newline) result }
{
    let mut out = [0; ENDED_LINE];
    let end = end_line(&mut out, line);
    print(stream, &out[..end])
}

/// Prints the status line of a pool.
pub fn print_status<D: Disk + Drop, M: Metadata + Drop, S: Stream>(
    pool: &mut Served<D, M>,
    stream: &mut S,
) -> Result<(), Refusal>
    ensures { PrintsCall (cached M.Metadata) pool.old pool.new Status (S.calls stream.old) (S.calls stream.new) result }
{
    let mut line = [0; LINE];
    let len = pool.status(&mut line);
    print_line(stream, &line[..len])
}

/// Prints the status line of a volume: `NoSuchDevice` or `Fault`, or `Fault` where the stream fails.
fn print_thin_status<D: Disk + Drop, M: Metadata + Drop, S: Stream>(
    pool: &mut Served<D, M>,
    id: DevId,
    stream: &mut S,
) -> Result<(), Refusal>
    ensures { PrintsCall (cached M.Metadata) pool.old pool.new (ThinStatus id) (S.calls stream.old) (S.calls stream.new) result }
{
    let mut line = [0; LINE];
    match pool.thin_status(id, &mut line) {
        Ok(len) => print_line(stream, &line[..len]),
        Err(reason) => Err(reason),
    }
}

/// Prints the status line of a pool, or of one of its volumes.
pub fn tell_status<D: Disk + Drop, M: Metadata + Drop, S: Stream>(
    pool: &mut Served<D, M>,
    id: Option<DevId>,
    stream: &mut S,
) -> Result<(), Refusal>
    ensures { PrintsCall (cached M.Metadata) pool.old pool.new (status_call id) (S.calls stream.old) (S.calls stream.new) result }
{
    match id {
        None => print_status(pool, stream),
        Some(id) => print_thin_status(pool, id, stream),
    }
}

/// Gives a pool one message, and prints `ok` where it is accepted.
fn give<D: Disk + Drop, M: Metadata + Drop, S: Stream>(
    pool: &mut Served<D, M>,
    message: &Message,
    stream: &mut S,
) -> Result<(), Refusal>
    ensures { PrintsCall (cached M.Metadata) pool.old pool.new (call_of message.now) (S.calls stream.old) (S.calls stream.new) result }
{
    match pool.order(message) {
        Ok(()) => print_line(stream, b"ok"),
        Err(reason) => Err(reason),
    }
}

/// Gives a pool the message of a line, and prints `ok` where it is accepted.
pub fn give_line<D: Disk + Drop, M: Metadata + Drop, S: Stream>(
    pool: &mut Served<D, M>,
    line: &str,
    stream: &mut S,
) -> Result<(), Refusal>
    ensures { IsLineGiven (cached M.Metadata) pool.old pool.new line.now (S.calls stream.old) (S.calls stream.new) result }
{
    match read_message(line.as_bytes()) {
        Ok(message) => give(pool, &message, stream),
        Err(reason) => Err(reason),
    }
}

/// Checks the image on a disk, and prints `clean` where it is clean.
pub fn tell_check<D: Disk, S: Stream>(
    alloc: Global,
    disk: &mut D,
    stream: &mut S,
) -> Result<(), Refusal>
    ensures { PrintsCheck (S.calls stream.old) (S.calls stream.new) result (D.state disk.old) (D.state disk.new) }
{
    match check(alloc, disk) {
        Ok(()) => print_line(stream, b"clean"),
        Err(error) => Err(error.refusal()),
    }
}
