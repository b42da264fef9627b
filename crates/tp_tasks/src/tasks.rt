//! The tasks that commands name, with their arguments.

ghost use Rattle.std.specs.Prelude.{◌≡◌, ◌⊎◌, ◌≤◌, ℕ, MatchOption, codes};
ghost use Rattle.clap.specs.Words.{found_of, rows_of, subcommand_rows_of};
ghost use Rattle.tp_tasks.specs.CommandLine.{HasClients, HasNoNumber, HasNumber, HasSizes, HasText, IsCheck, IsFeed, IsFormat, IsImage, IsMessage, IsNumber, IsPlay, IsServe, IsStatus, IsTask, IsTaskOf, LacksClients, LacksNumber, LacksSizes, LacksTask, LacksTaskOf, LacksText, MayHaveNumber, MayHaveText, is_explained_after, is_used};

use crate::creating::create_task;
use crate::listings::listing_named;
use crate::services::{ask_task, run_task};
use crate::task::{Image, Sizes, Task};
use clap::ArgMatches;

/// The task of a subcommand with its arguments.
pub fn task_of<'a>(matches: &ArgMatches<'a>) -> Option<Task<'a>>
    ensures { MatchOption result (LacksTaskOf (subcommand_rows_of matches.now)) (λ task. IsTaskOf (subcommand_rows_of matches.now) task) }
{
    let (name, arguments) = matches.subcommand()?;
    task_named(name, arguments)
}

/// Whether a subcommand has the flag `--explain` among its arguments.
pub fn is_explained_after(matches: &ArgMatches<'_>) -> bool
    ensures { result ≡ is_explained_after (subcommand_rows_of matches.now) }
{
    match matches.subcommand() {
        Some((_, arguments)) => has_flag(arguments, "EXPLAIN"),
        None => false,
    }
}

/// The task of the subcommand of this name.
fn task_named<'a>(name: &str, arguments: &ArgMatches<'a>) -> Option<Task<'a>>
    ensures { MatchOption result (LacksTask name.now (rows_of (found_of arguments.now))) (λ task. IsTask name.now (rows_of (found_of arguments.now)) task) }
{
    if name == "format" {
        return format_task(arguments);
    }
    if name == "create" {
        return create_task(arguments);
    }
    if name == "message" {
        return message_task(arguments);
    }
    if name == "status" {
        return status_task(arguments);
    }
    if name == "check" {
        return check_task(arguments);
    }
    if name == "feed" {
        return feed_task(arguments);
    }
    if name == "serve" {
        return serve_task(arguments);
    }
    if name == "play" {
        return play_task(arguments);
    }
    if name == "run" {
        return run_task(arguments);
    }
    if name == "ask" {
        return ask_task(arguments);
    }
    listing_named(name, arguments)
}

fn format_task<'a>(arguments: &ArgMatches<'a>) -> Option<Task<'a>>
    ensures { MatchOption result (LacksText (codes "IMAGE") (rows_of (found_of arguments.now)) ⊎ LacksSizes (rows_of (found_of arguments.now)))
        (λ task. IsFormat (rows_of (found_of arguments.now)) task) }
{
    let image = text_of(arguments, "IMAGE")?;
    let sizes = sizes_of(arguments)?;
    let overwrites = has_flag(arguments, "OVERWRITE");
    Some(Task::Format {
        image,
        sizes,
        overwrites,
    })
}

fn message_task<'a>(arguments: &ArgMatches<'a>) -> Option<Task<'a>>
    ensures { MatchOption result (LacksText (codes "IMAGE") (rows_of (found_of arguments.now)) ⊎ LacksText (codes "LINE") (rows_of (found_of arguments.now)))
        (λ task. IsMessage (rows_of (found_of arguments.now)) task) }
{
    let image = text_of(arguments, "IMAGE")?;
    let line = text_of(arguments, "LINE")?;
    Some(Task::Message { image, line })
}

fn status_task<'a>(arguments: &ArgMatches<'a>) -> Option<Task<'a>>
    ensures { MatchOption result (LacksText (codes "IMAGE") (rows_of (found_of arguments.now)) ⊎ HasNoNumber (codes "ID") (rows_of (found_of arguments.now)))
        (λ task. IsStatus (rows_of (found_of arguments.now)) task) }
{
    let image = text_of(arguments, "IMAGE")?;
    let id = number_if_there(arguments, "ID")?;
    Some(Task::Status { image, id })
}

fn check_task<'a>(arguments: &ArgMatches<'a>) -> Option<Task<'a>>
    ensures { MatchOption result (LacksText (codes "IMAGE") (rows_of (found_of arguments.now))) (λ task. IsCheck (rows_of (found_of arguments.now)) task) }
{
    let image = text_of(arguments, "IMAGE")?;
    let clears = has_flag(arguments, "CLEAR");
    Some(Task::Check { image, clears })
}

fn feed_task<'a>(arguments: &ArgMatches<'a>) -> Option<Task<'a>>
    ensures { MatchOption result (LacksText (codes "IMAGE") (rows_of (found_of arguments.now))) (λ task. IsFeed (rows_of (found_of arguments.now)) task) }
{
    let text = text_of(arguments, "IMAGE")?;
    let image = image_of(text);
    let is_extended = has_flag(arguments, "EXTENDED");
    Some(Task::Feed { image, is_extended })
}

fn serve_task<'a>(arguments: &ArgMatches<'a>) -> Option<Task<'a>>
    ensures { MatchOption result
        (LacksText (codes "IMAGE") (rows_of (found_of arguments.now)) ⊎ LacksText (codes "ADDR") (rows_of (found_of arguments.now)) ⊎ LacksClients (rows_of (found_of arguments.now)))
        (λ task. IsServe (rows_of (found_of arguments.now)) task) }
{
    let image = text_of(arguments, "IMAGE")?;
    let address = text_of(arguments, "ADDR")?;
    let clients = clients_of(arguments)?;
    let control = text_if_there(arguments, "CONTROL");
    Some(Task::Serve {
        image,
        address,
        clients,
        control,
    })
}

fn play_task<'a>(arguments: &ArgMatches<'a>) -> Option<Task<'a>>
    ensures { MatchOption result (LacksText (codes "IMAGE") (rows_of (found_of arguments.now)) ⊎ LacksText (codes "SCRIPT") (rows_of (found_of arguments.now)))
        (λ task. IsPlay (rows_of (found_of arguments.now)) task) }
{
    let text = text_of(arguments, "IMAGE")?;
    let script = text_of(arguments, "SCRIPT")?;
    let image = image_of(text);
    let is_extended = has_flag(arguments, "EXTENDED");
    Some(Task::Play {
        image,
        script,
        is_extended,
    })
}

/// How many clients are served, among the arguments.
fn clients_of(arguments: &ArgMatches<'_>) -> Option<u8>
    ensures { MatchOption result (LacksClients (rows_of (found_of arguments.now))) (λ n. HasClients (rows_of (found_of arguments.now)) n) }
{
    let count = number_of(arguments, "COUNT")?;
    few_enough(count)
}

/// A number of clients that can be served: 1 to 64.
fn few_enough(count: u64) -> Option<u8>
    ensures { MatchOption result (1 ≤ count → count ≤ 64 → ⊥) (λ n. (n ≡ count) × (1 ≤ n) × (n ≤ 64)) }
{
    if count < 1 {
        return None;
    }
    if count > 64 {
        return None;
    }
    Some(count as u8)
}

/// The sizes of a pool among the arguments.
fn sizes_of(arguments: &ArgMatches<'_>) -> Option<Sizes>
    ensures { MatchOption result (LacksSizes (rows_of (found_of arguments.now))) (λ sizes. HasSizes (rows_of (found_of arguments.now)) sizes) }
{
    let block_sectors = number_of(arguments, "BLOCK_SECTORS")?;
    let virtual_blocks = number_of(arguments, "VIRTUAL_BLOCKS")?;
    let metadata_blocks = number_of(arguments, "METADATA_BLOCKS")?;
    let data_blocks = number_of(arguments, "DATA_BLOCKS")?;
    Some(Sizes {
        block_sectors,
        virtual_blocks,
        metadata_blocks,
        data_blocks,
    })
}

/// A text among the arguments.
pub(crate) fn text_of<'a>(arguments: &ArgMatches<'a>, id: &str) -> Option<&'a str>
    ensures { MatchOption result (LacksText id.now (rows_of (found_of arguments.now))) (λ text. HasText id.now (rows_of (found_of arguments.now)) text) }
{
    arguments.get_str(id)
}

/// The same of one that may be left out.
pub(crate) fn text_if_there<'a>(arguments: &ArgMatches<'a>, id: &str) -> Option<&'a str>
    ensures { MayHaveText id.now (rows_of (found_of arguments.now)) result }
{
    text_of(arguments, id)
}

/// Whether a flag is among the arguments.
pub(crate) fn has_flag(arguments: &ArgMatches<'_>, id: &str) -> bool
    ensures { result ≡ is_used id.now (rows_of (found_of arguments.now)) }
{
    match text_of(arguments, id) {
        Some(text) => text == "true",
        None => false,
    }
}

/// A number among the arguments.
pub(crate) fn number_of(arguments: &ArgMatches<'_>, id: &str) -> Option<u64>
    ensures { MatchOption result (LacksNumber id.now (rows_of (found_of arguments.now))) (λ n. HasNumber id.now (rows_of (found_of arguments.now)) n) }
{
    let text = text_of(arguments, id)?;
    let number = number_in(text)?;
    Some(number)
}

/// The number that a text is, of 64 bits.
pub(crate) fn number_in(text: &str) -> Option<u64>
    ensures { MatchOption result ((n : ℕ) → IsNumber text.now n → ⊥) (λ n. IsNumber text.now n) }
{
    match text.parse::<u64>() {
        Ok(number) => Some(number),
        Err(_) => None,
    }
}

/// The same where it is among them.
pub(crate) fn number_if_there(arguments: &ArgMatches<'_>, id: &str) -> Option<Option<u64>>
    ensures { MatchOption result (HasNoNumber id.now (rows_of (found_of arguments.now))) (λ n. MayHaveNumber id.now (rows_of (found_of arguments.now)) n) }
{
    let Some(_) = text_of(arguments, id) else {
        return Some(None);
    };
    let number = number_of(arguments, id)?;
    Some(Some(number))
}

/// The image that a text names.
fn image_of(text: &str) -> Image<'_>
    ensures { IsImage text.now result }
{
    if text == "mem:" {
        Image::Memory
    } else {
        Image::File(text)
    }
}
