//! The reading of a command line.

ghost use Rattle.std.specs.Prelude.{◌≡◌, [], IfOk, List, MatchResult, drop, false, map};
ghost use Rattle.clap.specs.Words.{App, HasKind, Rule, Text, app_of, new_app, rule_of, subcommand_rows_of, with_rule, with_subcommand};
ghost use Rattle.clap.specs.declared.builder.command.Command.TheViews.{out-Command};
ghost use Rattle.tp_tasks.specs.CommandLine.{AskFor, IsUnread, NameNone, check_app, command_in, explain_rule, extended_rule, feed_app, flag_rule, image_app, is_explained, message_app, mistakes, number_rule, option_rule, optional_number_rule, optional_rule, play_app, repeated_rule, serve_app, status_app, text_rule, thinpool_app, with_command, with_first, with_listings, without_flag, without_subcommands};
ghost use Rattle.tp_words.specs.Commands.{IsMade, IsRuled};

use crate::listing::{delta_command, free_command, list_command, map_command};
use crate::making::{create_command, format_command};
use crate::running::{ask_command, run_command};
use clap::error::ErrorKind;
use clap::{Arg, ArgAction, ArgMatches, Command};
use std::alloc::{AllocError, Global};
use std::convert::AsStr;
use std::path::Path;
use tp_tasks::{Asked, Unread, fault_of_create, fault_of_run, is_explained_after, task_of};

const VERSION: &str = "0.1.0 (rattle-kit-13f logic dac8208d650f15bf)";

const AFTER_HELP: &str = "\
Before or after the command:
      --explain  After an error, also print what failed, why, and what to do. On a terminal this is
                 the default. Example: thinpool --explain status pool.img

An image is a regular file, as large as its pool and sparse until it is written, or a block device
that is at least as large. It has a metadata part and a data part.
Commands that may write take an exclusive lock on the image. Commands that only read it (status, ls,
map, delta, free, and check without its flag) take a shared lock.

Create a pool of 10 GiB with volumes of 100 GiB each:
  thinpool create pool.img --size 10G --volume-size 100G --volumes 4
  thinpool message pool.img 'create_thin 0'
  thinpool status pool.img
  thinpool ls pool.img
  thinpool check pool.img";

const MESSAGE_HELP: &str = "\
LINE is one argument, so quote it:
  'create_thin ID'              Create a volume that reads as zeros
  'create_snap ID ORIGIN'       Create a volume with the current data of volume ORIGIN
  'delete ID'                   Delete a volume. No client may have it open
  'grow ID BLOCKS'              Set the size of a volume to BLOCKS data blocks: at least its current
                                size, at most 16777216. The new blocks read as zeros. No client may
                                have the volume open
  'set_transaction_id OLD NEW'  Set the transaction id of the pool to NEW if it is OLD
  reserve_metadata_snap         Create the metadata snapshot of the pool, if none exists
  release_metadata_snap         Delete the metadata snapshot and free its blocks
ID and ORIGIN are numbers in 0..=16777215, OLD and NEW are 64-bit numbers. All numbers are decimal,
without leading zeros. With data blocks of 64 KiB, 16384 BLOCKS are 1 GiB and 3276800 are 200 GiB.
The change is durable when 'ok' is printed.

  thinpool message pool.img 'create_thin 0'
  thinpool message pool.img 'grow 0 3276800'";

const STATUS_HELP: &str = "\
Fields of a pool's line: transaction id; used/total metadata blocks of 4096 bytes; used/total data
blocks; root of the metadata snapshot, or '-'; mode (rw, ro, out_of_data_space or Fail);
no_discard_passdown; error_if_no_space; needs_check, or '-'; 512 (bytes of a sector).
Fields of a volume's line: mapped sectors; highest mapped sector, or '-'.

A pool of 10 GiB with one volume that was never written:
  thinpool status pool.img      0 340/8192 0/163840 - rw no_discard_passdown error_if_no_space - 512
  thinpool status pool.img 0    0 -";

const CHECK_HELP: &str = "\
Prints 'clean'; or prints the number and name of one error on standard error, with exit status 1.
The image is opened read-only, with the shared lock. Each node is read once. The check needs 60
bytes of memory for each metadata block and 4 for each data block.

A pool that ran out of metadata space has 'needs_check' in its status line and is read-only. With
--clear-needs-check-flag, check clears needs_check if the image is clean. Volumes can then be
deleted and written again. This needs the right to write the file and the exclusive lock, and is
durable when 'clean' is printed. An image that is not clean is not written.

The image was not checked, and may be clean or not:
   5 Fault       The file does not exist, is neither a regular file nor a block device, may not be
                 opened, or is in use by another process; or a read or standard output failed.
                 Correct the cause and check again. With the flag, also: the file may not be
                 written, or a write failed. The status line then shows whether needs_check is set
  10 Memory      Out of memory

The image has this error:
  30 BadSuper    No superblock is usable, or the file is shorter than its pool: it is not an
                 image, an incomplete copy, or a 'format' did not end. Check the name, copy the
                 image again, or format it again
  31 BadNode     A block is not the tree node that it should be
  32 BadOrder    The keys of a node are not ascending, or out of range
  33 BadCount    Stored reference counts are wrong, or fewer than 128 metadata blocks are free
  34 OutOfPlace  A block number is out of range, or there are too many volumes
  35 HalfEmpty   A node has too few entries
  36 BadMapped   A volume's count of mapped blocks is wrong
  37 BadRecordSize
                 A volume record has an invalid size

No crash and no failed disk leaves an image with an error from 31 to 37: another program wrote the
file, or the disk lost synced writes. There is no repair. Send the image no message and serve no
writes from it, because they could overwrite other volumes. Use a clean copy instead. To save
readable data, copy the file and read volumes from the copy with 'feed' or 'serve'.

  thinpool check pool.img
  thinpool check pool.img --clear-needs-check-flag";

const FEED_HELP: &str = "\
The client speaks NBD (fixed newstyle) on standard input, and reads replies on standard output. The
export names are the volume ids. Offsets and lengths are in bytes, multiples of 512. A request has
at most 1048576 bytes; with --extended TRIM, WRITE_ZEROES and BLOCK_STATUS have at most 4294967295.
When a FLUSH is replied to, its data is durable. When the client ends, the pool is closed and all
its writes are durable. TRIM frees blocks of the pool, but no space on the host.

This opens volume 0 of a pool of 10 GiB and prints the replies:
  printf '\\0\\0\\0\\3IHAVEOPT\\0\\0\\0\\7\\0\\0\\0\\7\\0\\0\\0\\0010\\0\\0' | thinpool feed pool.img | xxd";

const SERVE_HELP: &str = "\
Clients speak NBD (fixed newstyle) and connect to the TCP address ADDR, such as 127.0.0.1:10809 or
[::1]:10809. The server accepts COUNT connections in total, and then closes the pool. With port 0
the system picks a port, which is printed on standard error. There is no authentication and no time
limit, so listen on loopback or on a private network. When a FLUSH is replied to, its data is
durable, even if the server is killed.

With --control the server also listens on ADDRESS for control lines, from one client at a time. Each
line that ends with a newline gets one reply: 'status' and 'thin ID' a status line, and any other
line is a message as for 'thinpool message', with the reply 'ok' or 'refused N', N being the error
number. A client of this address can delete volumes, so listen on loopback. The address is closed
after the last of the COUNT clients disconnects.

  thinpool serve pool.img 127.0.0.1:10809 1
  thinpool serve pool.img 127.0.0.1:10809 1 --control 127.0.0.1:10810";

const PLAY_HELP: &str = "\
Each line of the file SCRIPT is an event, and its replies are printed on one line each. SID is a
client number in 0..=63, ID a volume id, HEX 1 to 8192 bytes of two digits each, 0 to 9 and a to f.
Empty lines are ignored.
  open SID         A client connects. Prints 'sent SID HEX' with the greeting
  bytes SID HEX    It sends these bytes. Prints 'sent SID HEX' for each reply, and 'end SID' if its
                   connection is closed
  hangup SID       It disconnects. Prints 'end SID'
  message TEXT     Sends a message to the pool. Prints 'ok'
  status           Prints the status line of the pool
  thin ID          Prints the status line of a volume
An event that fails prints 'refused N', N being the error number, and the script continues. Any
other line ends the script with exit status 2: the pool is not closed, and data that was not flushed
may be lost as in a crash. Otherwise the pool is closed at the end.

With --extended clients may send TRIM and WRITE_ZEROES of any length, and request structured replies
and block status, as with 'run'.

  thinpool play mem: script.txt";

/// Reads the words of a command line, the first of them the program's name. `--explain` may be the second, or an option of the command.
///
/// `Memory` where there is no memory for it, and only then of words that name a task.
pub fn command<'a, S: AsStr>(alloc: Global, words: &'a [S]) -> Result<Asked<'a>, Unread>
    ensures { MatchResult result (λ asked. AskFor (map S.text words.now) asked) (λ why. IsUnread (map S.text words.now) why) }
{
    let (explains, rest) = without_flag(words);
    match commands_for(alloc, words, explains) {
        Ok(mut known) => read(alloc, &mut known, rest, explains),
        Err(_) => Err(Unread::Memory),
    }
}

/// What these commands make of the words for `clap`.
fn read<'a, S: AsStr>(
    alloc: Global,
    known: &mut Command<'a>,
    rest: &'a [S],
    explains: bool,
) -> Result<Asked<'a>, Unread>
    ensures { (words : List Text) → app_of known.old ≡ thinpool_app → drop 1 (map S.text rest.entry.now) ≡ drop 1 (without_flag words) → explains ≡ is_explained words
        → MatchResult result (λ asked. AskFor words asked) (λ why. IsUnread words why) }
{
    match known.try_get_matches_from_mut(rest) {
        Ok(matches) => asked_in(alloc, &matches, explains),
        Err(error) => Err(unread(alloc, rest, &error)),
    }
}

/// The task that was found, if there is one.
fn asked_in<'a>(
    alloc: Global,
    matches: &ArgMatches<'a>,
    explains: bool,
) -> Result<Asked<'a>, Unread>
    ensures { (words : List Text) → mistakes words ≡ [] → subcommand_rows_of matches.now ≡ command_in words → explains ≡ is_explained words
        → MatchResult result (λ asked. AskFor words asked) (λ why. IsUnread words why) }
{
    let after = is_explained_after(matches);
    let explains = explains | after;
    match task_of(matches) {
        Some(task) => Ok(Asked { task, explains }),
        None => Err(misused(alloc, matches)),
    }
}

/// Whether the flag stands in front of the command, and the words for `clap`, which passes over the first of them: the program's name, or the flag behind it.
fn without_flag<'a, S: AsStr>(words: &'a [S]) -> (bool, &'a [S])
    ensures flag { result.0 ≡ is_explained (map S.text words.now) }
    ensures rest { drop 1 (map S.text result.1.now) ≡ drop 1 (without_flag (map S.text words.now)) }
{
    let Some((_, behind)) = words.split_first() else {
        return (false, words);
    };
    let Some(word) = behind.first() else {
        return (false, words);
    };
    if word.as_str() == "--explain" {
        return (true, behind);
    }
    (false, words)
}

/// The commands for these words. Where `clap` does not see the program's name it is told it, for the usage.
fn commands_for<'a, S: AsStr>(
    alloc: Global,
    words: &[S],
    explains: bool,
) -> Result<Command<'a>, AllocError>
    ensures { IfOk result (λ known. app_of known ≡ thinpool_app) }
{
    let known = known_commands(alloc)?;
    match program_name(words) {
        Some(name) if explains => known.bin_name(name),
        _ => Ok(known),
    }
}

/// The name by which the program was called, as far as it is known.
fn program_name<S: AsStr>(words: &[S]) -> Option<&str> {
    Path::new(words.first()?.as_str()).file_name()
}

/// Makes a required argument.
pub(crate) fn text<'a>(alloc: Global, id: &'a str, help: &'a str) -> Arg<'a>
    ensures rule { rule_of result ≡ text_rule id.entry.now }
    ensures local { result.global ≡ false }
{
    Arg::new(alloc, id).required(true).help(help)
}

/// Makes a required argument that is a 64-bit number.
pub(crate) fn number<'a>(alloc: Global, id: &'a str, help: &'a str) -> Arg<'a>
    ensures rule { rule_of result ≡ number_rule id.entry.now }
    ensures local { result.global ≡ false }
{
    text(alloc, id, help).value_parser(clap::value_parser!(u64))
}

/// Makes an optional argument that is a 64-bit number.
fn optional_number<'a>(alloc: Global, id: &'a str, help: &'a str) -> Arg<'a>
    ensures rule { rule_of result ≡ optional_number_rule id.entry.now }
    ensures local { result.global ≡ false }
{
    Arg::new(alloc, id)
        .help(help)
        .value_parser(clap::value_parser!(u64))
}

/// A flag `--name`: its text is `true` where the words have it, and else `false`.
pub(crate) fn flag<'a>(alloc: Global, id: &'a str, name: &'a str, help: &'a str) -> Arg<'a>
    ensures rule { rule_of result ≡ flag_rule id.entry.now name.entry.now }
    ensures local { result.global ≡ false }
{
    Arg::new(alloc, id)
        .long(name)
        .action(ArgAction::SetTrue)
        .help(help)
}

/// The flag `--explain`.
fn explain<'a>(alloc: Global) -> Arg<'a>
    ensures rule { rule_of result ≡ explain_rule }
    ensures local { result.global ≡ false }
{
    let help = "After an error, also print what failed, why, and what to do";
    flag(alloc, "EXPLAIN", "explain", help)
}

/// An option `--name VALUE`, which may be left out. Help calls its value by that name.
pub(crate) fn option<'a>(
    alloc: Global,
    id: &'a str,
    name: &'a str,
    value: &'a str,
    help: &'a str,
) -> Arg<'a>
    ensures rule { rule_of result ≡ option_rule id.entry.now name.entry.now }
    ensures local { result.global ≡ false }
{
    Arg::new(alloc, id).long(name).value_name(value).help(help)
}

/// The same that has to be there, and may be there several times.
pub(crate) fn repeated<'a>(
    alloc: Global,
    id: &'a str,
    name: &'a str,
    value: &'a str,
    help: &'a str,
) -> Arg<'a>
    ensures rule { rule_of result ≡ repeated_rule id.entry.now name.entry.now }
    ensures local { result.global ≡ false }
{
    option(alloc, id, name, value, help)
        .required(true)
        .action(ArgAction::Append)
}

/// Makes an optional argument.
pub(crate) fn optional<'a>(alloc: Global, id: &'a str, help: &'a str) -> Arg<'a>
    ensures rule { rule_of result ≡ optional_rule id.entry.now }
    ensures local { result.global ≡ false }
{
    Arg::new(alloc, id).help(help)
}

/// A command with one argument more.
fn add_argument<'a>(command: Command<'a>, arg: Arg<'a>) -> Result<Command<'a>, AllocError>
    ensures { (before : App) (rule : Rule) → IsMade before command.entry → IsRuled rule arg.entry → IfOk result (IsMade (with_rule before rule)) }
{
    command.arg(arg)
}

/// The same of one that there may be no memory for. A `?` where a command lives is dear to prove, so it is passed on whole.
pub(crate) fn with<'a>(
    made: Result<Command<'a>, AllocError>,
    arg: Arg<'a>,
) -> Result<Command<'a>, AllocError>
    ensures { (before : App) (rule : Rule) → IfOk made.entry (IsMade before) → IsRuled rule arg.entry → IfOk result (IsMade (with_rule before rule)) }
{
    match made {
        Ok(command) => add_argument(command, arg),
        Err(error) => Err(error),
    }
}

/// A command of an image.
pub(crate) fn of_image<'a>(
    alloc: Global,
    name: &'a str,
    about: &'a str,
    image: &'a str,
    help: &'a str,
) -> Result<Command<'a>, AllocError>
    ensures { IfOk result (IsMade (image_app name.entry.now)) }
{
    let command = named(alloc, name, about, help);
    add_argument(command, text(alloc, "IMAGE", image))
}

/// A command without arguments.
pub(crate) fn named<'a>(alloc: Global, name: &'a str, about: &'a str, help: &'a str) -> Command<'a>
    ensures app { app_of result ≡ new_app name.entry.now }
    ensures local { (out-Command result).has_globals ≡ false }
{
    Command::new(alloc, name).about(about).after_help(help)
}

fn message_command<'a>(alloc: Global) -> Result<Command<'a>, AllocError>
    ensures { IfOk result (IsMade message_app) }
{
    let about = "Send one message to a pool, and print 'ok'";
    let image = "Image of the pool";
    let line = "The message, in quotes: at most 256 bytes";
    let made = of_image(alloc, "message", about, image, MESSAGE_HELP);
    with(made, text(alloc, "LINE", line))
}

fn status_command<'a>(alloc: Global) -> Result<Command<'a>, AllocError>
    ensures { IfOk result (IsMade status_app) }
{
    let about = "Print the status line of a pool or of a volume. Does not write to the image";
    let image = "Image of the pool";
    let id = "Volume id [0 to 16777215]; without it, print the line of the pool";
    let made = of_image(alloc, "status", about, image, STATUS_HELP);
    with(made, optional_number(alloc, "ID", id))
}

fn check_command<'a>(alloc: Global) -> Result<Command<'a>, AllocError>
    ensures { IfOk result (IsMade check_app) }
{
    let about = "Check an image; print 'clean' if it is consistent. Writes only with the flag";
    let clears = "If the image is clean, clear needs_check, so that the pool can be written";
    let made = of_image(alloc, "check", about, "Image of the pool", CHECK_HELP);
    with(made, flag(alloc, "CLEAR", "clear-needs-check-flag", clears))
}

/// The flag by which clients are offered what `run` offers.
fn extended<'a>(alloc: Global) -> Arg<'a>
    ensures rule { rule_of result ≡ extended_rule }
    ensures local { result.global ≡ false }
{
    let help =
        "Offer what 'run' offers: long TRIM and WRITE_ZEROES, structured replies and block status";
    flag(alloc, "EXTENDED", "extended", help)
}

fn feed_command<'a>(alloc: Global) -> Result<Command<'a>, AllocError>
    ensures { IfOk result (IsMade feed_app) }
{
    let about = "Serve one NBD client on standard input and output, then close the pool";
    let image = "Image of the pool, or 'mem:' for a new pool in memory with one volume, 0";
    let made = of_image(alloc, "feed", about, image, FEED_HELP);
    with(made, extended(alloc))
}

fn serve_command<'a>(alloc: Global) -> Result<Command<'a>, AllocError>
    ensures { IfOk result (IsMade serve_app) }
{
    let about = "Serve COUNT NBD clients on a TCP address, then close the pool";
    let image = "Image of the pool";
    let address = "Address to listen on: an IP address or a host, and a port";
    let clients = "Number of clients to serve [1 to 64]";
    let control = "Address to listen on for control lines while clients are served";
    let made = of_image(alloc, "serve", about, image, SERVE_HELP);
    let made = with(made, text(alloc, "ADDR", address));
    let made = with(made, number(alloc, "COUNT", clients));
    with(
        made,
        option(alloc, "CONTROL", "control", "ADDRESS", control),
    )
}

fn play_command<'a>(alloc: Global) -> Result<Command<'a>, AllocError>
    ensures { IfOk result (IsMade play_app) }
{
    let about = "Play the events of a script over a pool, then close the pool";
    let image = "Image of the pool, or 'mem:' for a new pool in memory with one volume, 0";
    let made = of_image(alloc, "play", about, image, PLAY_HELP);
    let made = with(made, text(alloc, "SCRIPT", "File of the script"));
    with(made, extended(alloc))
}

/// The program, as yet without its commands.
fn program<'a>(alloc: Global) -> Command<'a>
    ensures { app_of result ≡ without_subcommands }
{
    let about = "A thin pool with snapshots, served over NBD";
    named(alloc, "thinpool", about, AFTER_HELP)
        .version(VERSION)
        .subcommand_required(true)
        .arg_required_else_help(true)
}

/// The commands, with their arguments.
fn known_commands<'a>(alloc: Global) -> Result<Command<'a>, AllocError>
    ensures { IfOk result (λ known. app_of known ≡ thinpool_app) }
{
    let known = with_first(alloc, Ok(program(alloc)));
    let known = with_listings(alloc, known);
    let known = add_to_made(alloc, known, check_command(alloc));
    let known = add_to_made(alloc, known, feed_command(alloc));
    let known = add_to_made(alloc, known, serve_command(alloc));
    let known = add_to_made(alloc, known, play_command(alloc));
    let known = add_to_made(alloc, known, run_command(alloc));
    add_to_made(alloc, known, ask_command(alloc))
}

/// Commands with those that make an image, tell it a message, or tell its status.
fn with_first<'a>(
    alloc: Global,
    known: Result<Command<'a>, AllocError>,
) -> Result<Command<'a>, AllocError>
    ensures { (before : App) → IfOk known.entry (λ commands. app_of commands ≡ before) → IfOk result (λ all. app_of all ≡ with_first before) }
{
    let known = add_to_made(alloc, known, format_command(alloc));
    let known = add_to_made(alloc, known, create_command(alloc));
    let known = add_to_made(alloc, known, message_command(alloc));
    add_to_made(alloc, known, status_command(alloc))
}

/// Commands with those that list what is in an image.
fn with_listings<'a>(
    alloc: Global,
    known: Result<Command<'a>, AllocError>,
) -> Result<Command<'a>, AllocError>
    ensures { (before : App) → IfOk known.entry (λ commands. app_of commands ≡ before) → IfOk result (λ all. app_of all ≡ with_listings before) }
{
    let known = add_to_made(alloc, known, list_command(alloc));
    let known = add_to_made(alloc, known, map_command(alloc));
    let known = add_to_made(alloc, known, delta_command(alloc));
    add_to_made(alloc, known, free_command(alloc))
}

/// Commands with one more.
fn add<'a>(known: Command<'a>, command: Command<'a>) -> Result<Command<'a>, AllocError>
    ensures { (out-Command command.entry).has_globals ≡ false → IfOk result (λ made. app_of made ≡ with_subcommand (app_of known.entry) (app_of command.entry).top) }
{
    known.subcommand(command)
}

/// The same with one that there may be no memory for.
fn add_made<'a>(
    known: Command<'a>,
    made: Result<Command<'a>, AllocError>,
) -> Result<Command<'a>, AllocError>
    ensures { (more : App) → IfOk made.entry (IsMade more) → IfOk result (λ all. app_of all ≡ with_subcommand (app_of known.entry) more.top) }
{
    match made {
        Ok(command) => add(known, command),
        Err(error) => Err(error),
    }
}

/// The same of commands that there may be no memory for, and the new one gets the flag `--explain`. A `?` where commands live is dear to prove, so both are passed on whole.
fn add_to_made<'a>(
    alloc: Global,
    known: Result<Command<'a>, AllocError>,
    made: Result<Command<'a>, AllocError>,
) -> Result<Command<'a>, AllocError>
    ensures { (before more : App) → IfOk known.entry (λ commands. app_of commands ≡ before) → IfOk made.entry (IsMade more)
        → IfOk result (λ all. app_of all ≡ with_command before more) }
{
    let made = with(made, explain(alloc));
    match known {
        Ok(commands) => add_made(commands, made),
        Err(error) => Err(error),
    }
}

/// Makes the usage error of arguments that `clap` accepts and that name no task: the number of
/// clients, a size, or the addresses, the volume or the percentage of a server is out of range.
fn misused(alloc: Global, matches: &ArgMatches<'_>) -> Unread
    ensures { (words : List Text) → mistakes words ≡ [] → NameNone words → IsUnread words result }
{
    match fault_of(alloc, matches) {
        Ok(text) => Unread::Misused(text),
        Err(_) => Unread::Memory,
    }
}

/// Returns the text of that error.
fn fault_of(alloc: Global, matches: &ArgMatches<'_>) -> Result<String, AllocError> {
    match matches.subcommand() {
        Some(("run", arguments)) => String::from_str(alloc, fault_of_run(arguments)),
        Some(("create", arguments)) => {
            let (option, value) = fault_of_create(arguments);
            format!(in alloc;
                "error: invalid value '{value}' for {option} <SIZE>: must be an integer number of bytes below 2^64, such as 10737418240, 10G, 10GiB or 1.5T\n\nUsage: thinpool create [OPTIONS] --size <SIZE> --volume-size <SIZE> --volumes <N> <IMAGE>\n"
            )
        }
        _ => String::from_str(
            alloc,
            "error: invalid value for <COUNT>: must be in 1..=64\n\nUsage: thinpool serve [OPTIONS] <IMAGE> <ADDR> <COUNT>\n",
        ),
    }
}

/// Makes the help or the usage error of arguments that `clap` does not accept.
fn unread<S: AsStr>(alloc: Global, words: &[S], error: &clap::Error) -> Unread
    ensures { (words : List Text) → HasKind (mistakes words) error.now → IsUnread words result }
{
    if error.kind() == ErrorKind::OutOfMemory {
        return Unread::Memory;
    }
    let Ok(text) = told(alloc, words, error) else {
        return Unread::Memory;
    };
    if error.use_stderr() {
        Unread::Misused(text)
    } else {
        Unread::Help(text)
    }
}

/// Returns the text of `clap`, without its tip to pass an argument as a value if that value would
/// be invalid.
fn told<S: AsStr>(alloc: Global, words: &[S], error: &clap::Error) -> Result<String, AllocError> {
    let text = format!(in alloc; "{error}")?;
    if let Some((before, argument, after)) = around_tip(text.as_str()) {
        if is_no_value(alloc, words, argument)? {
            return format!(in alloc; "{before}\n\n{after}");
        }
    }
    Ok(text)
}

/// What a text says in front of the tip to pass an argument as a value, that argument, and what the text says behind the tip.
fn around_tip(text: &str) -> Option<(&str, &str, &str)> {
    let (before, tip) = text.split_once("\n\n  tip: to pass '")?;
    let (argument, tip) = tip.split_once("' as a value, use '-- ")?;
    let (_, after) = tip.split_once("'\n\n")?;
    Some((before, argument, after))
}

/// Whether the first argument that begins so would be a value that is refused, as where a number is wanted, if `--` stood in front of it.
fn is_no_value<S: AsStr>(alloc: Global, words: &[S], argument: &str) -> Result<bool, AllocError> {
    let mut tried = Vec::new(alloc);
    match part(words, argument, &mut tried) {
        Ok(()) => is_refused(alloc, &tried),
        Err(error) => Err(error),
    }
}

/// Adds the words, with `--` in front of the first argument that begins so.
fn part<'a, S: AsStr>(
    words: &'a [S],
    argument: &str,
    tried: &mut Vec<&'a str>,
) -> Result<(), AllocError> {
    let mut is_passed = false;
    for word in words {
        if !is_passed && !tried.is_empty() && word.as_str().starts_with(argument) {
            tried.push("--")?;
            is_passed = true;
        }
        tried.push(word.as_str())?;
    }
    Ok(())
}

/// Whether a value among these words is refused.
fn is_refused(alloc: Global, words: &[&str]) -> Result<bool, AllocError> {
    match known_commands(alloc) {
        Ok(mut known) => Ok(refuses(&mut known, words)),
        Err(error) => Err(error),
    }
}

/// Whether these commands refuse a value among the words.
fn refuses<'a>(known: &mut Command<'a>, words: &'a [&'a str]) -> bool {
    match known.try_get_matches_from_mut(words) {
        Ok(_) => false,
        Err(error) => error.kind() == ErrorKind::ValueValidation,
    }
}
