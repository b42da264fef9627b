//! The tasks of a server that stays up, and of those who ask it: `run` and `ask`.

ghost use Rattle.std.specs.Prelude.{◌≡◌, ◌⊎◌, ℕ, MatchOption, codes, map};
ghost use Rattle.clap.specs.Words.{found_of, rows_of};
ghost use Rattle.tp_tasks.specs.declared.task.Texts.{Texts};
ghost use Rattle.tp_tasks.specs.CommandLine.{HasMode, HasNoMode, HasNoneUpTo, HasTexts, IsAbove, IsAsk, IsMode, IsRun, IsUpTo, LacksMode, LacksText, LacksTexts, MayHaveMode, MayHaveUpTo, texts_in};

use crate::task::{Service, SocketRights, Task, Texts};
use crate::tasks::{has_flag, number_if_there, text_if_there, text_of};
use clap::ArgMatches;

/// The greatest id of a volume.
const GREATEST_ID: u64 = 16_777_215;

/// The greatest mode of a socket file: rights alone.
const GREATEST_MODE: u32 = 0o777;

pub(crate) fn run_task<'a>(arguments: &ArgMatches<'a>) -> Option<Task<'a>>
    ensures { MatchOption result
        (LacksText (codes "IMAGE") (rows_of (found_of arguments.now)) ⊎ LacksTexts (codes "LISTEN") (rows_of (found_of arguments.now)) ⊎ HasNoneUpTo 16777215 (codes "DEFAULT") (rows_of (found_of arguments.now)) ⊎ HasNoneUpTo 100 (codes "LOW_WATER") (rows_of (found_of arguments.now)) ⊎ HasNoMode (codes "SOCKET_MODE") (rows_of (found_of arguments.now)))
        (λ task. IsRun (rows_of (found_of arguments.now)) task) }
{
    let image = text_of(arguments, "IMAGE")?;
    let places = texts_of(arguments, "LISTEN")?;
    let default = number_up_to(arguments, "DEFAULT", GREATEST_ID)?;
    let low_water = number_up_to(arguments, "LOW_WATER", 100)?;
    let mode = mode_if_there(arguments, "SOCKET_MODE")?;
    let group = text_if_there(arguments, "SOCKET_GROUP");
    let ruler = text_if_there(arguments, "CONTROL");
    let is_quiet = has_flag(arguments, "QUIET");
    let has_clones = has_flag(arguments, "CLONES");
    let writes_through = has_flag(arguments, "WRITE_THROUGH");
    let ends_on_failure = has_flag(arguments, "EXIT_ON_FAILURE");
    let service = Service {
        places,
        control: ruler,
        default,
        low_water,
        is_quiet,
        has_clones,
        writes_through,
        ends_on_failure,
        rights: SocketRights { mode, group },
    };
    Some(Task::Run { image, service })
}

pub(crate) fn ask_task<'a>(arguments: &ArgMatches<'a>) -> Option<Task<'a>>
    ensures { MatchOption result (LacksText (codes "WHERE") (rows_of (found_of arguments.now)) ⊎ LacksText (codes "LINE") (rows_of (found_of arguments.now)))
        (λ task. IsAsk (rows_of (found_of arguments.now)) task) }
{
    let place = text_of(arguments, "WHERE")?;
    let first = text_of(arguments, "LINE")?;
    let second = text_if_there(arguments, "LINE2");
    let third = text_if_there(arguments, "LINE3");
    let fourth = text_if_there(arguments, "LINE4");
    let lines = Texts {
        first,
        second,
        third,
        fourth,
    };
    Some(Task::Ask { place, lines })
}

/// The texts of an argument that may be there several times: one to four of them.
fn texts_of<'a>(arguments: &ArgMatches<'a>, id: &str) -> Option<Texts<'a>>
    ensures { MatchOption result (LacksTexts id.now (rows_of (found_of arguments.now))) (λ texts. HasTexts id.now (rows_of (found_of arguments.now)) texts) }
{
    let texts = arguments.get_strs(id)?;
    four_of(texts)
}

/// One to four texts.
fn four_of<'a>(texts: &[&'a str]) -> Option<Texts<'a>>
    ensures { MatchOption result ((four : Texts) → map (λ text. text.now) texts.now ≡ texts_in four → ⊥) (λ four. map (λ text. text.now) texts.now ≡ texts_in four) }
{
    if texts.len() > 4 {
        return None;
    }
    let first = texts.first().copied()?;
    let second = texts.get(1).copied();
    let third = texts.get(2).copied();
    let fourth = texts.get(3).copied();
    Some(Texts {
        first,
        second,
        third,
        fourth,
    })
}

/// A number up to a greatest one among the arguments, where it is among them.
fn number_up_to(arguments: &ArgMatches<'_>, id: &str, most: u64) -> Option<Option<u64>>
    ensures { MatchOption result (HasNoneUpTo most id.now (rows_of (found_of arguments.now))) (λ n. MayHaveUpTo most id.now (rows_of (found_of arguments.now)) n) }
{
    let number = number_if_there(arguments, id)?;
    up_to(number, most)
}

/// A number, if there is one, that is not above the greatest one.
fn up_to(number: Option<u64>, most: u64) -> Option<Option<u64>>
    ensures { MatchOption result (IsAbove most number) (λ few. IsUpTo most number few) }
{
    match number {
        Some(number) if number > most => None,
        other => Some(other),
    }
}

/// A mode among the arguments.
fn mode_of(arguments: &ArgMatches<'_>, id: &str) -> Option<u32>
    ensures { MatchOption result (LacksMode id.now (rows_of (found_of arguments.now))) (λ n. HasMode id.now (rows_of (found_of arguments.now)) n) }
{
    let text = text_of(arguments, id)?;
    let mode = mode_in(text)?;
    Some(mode)
}

/// The mode that a text is: octal digits, up to 0777.
fn mode_in(text: &str) -> Option<u32>
    ensures { MatchOption result ((n : ℕ) → IsMode text.now n → ⊥) (λ n. IsMode text.now n) }
{
    match u32::from_str_radix(text, 8) {
        Ok(mode) if mode <= GREATEST_MODE => Some(mode),
        _ => None,
    }
}

/// A mode among the arguments, if it is among them.
fn mode_if_there(arguments: &ArgMatches<'_>, id: &str) -> Option<Option<u32>>
    ensures { MatchOption result (HasNoMode id.now (rows_of (found_of arguments.now))) (λ n. MayHaveMode id.now (rows_of (found_of arguments.now)) n) }
{
    let Some(_) = text_of(arguments, id) else {
        return Some(None);
    };
    let mode = mode_of(arguments, id)?;
    Some(Some(mode))
}

/// What is wrong with the arguments of `run`, where they name no task.
pub fn fault_of_run(arguments: &ArgMatches<'_>) -> &'static str {
    if texts_of(arguments, "LISTEN").is_none() {
        return "error: --listen may be given at most four times\n\nUsage: thinpool run [OPTIONS] --listen <WHERE> <IMAGE>\n";
    }
    if number_up_to(arguments, "DEFAULT", GREATEST_ID).is_none() {
        return "error: invalid value for --default <ID>: must be in 0..=16777215\n\nUsage: thinpool run [OPTIONS] --listen <WHERE> <IMAGE>\n";
    }
    if mode_if_there(arguments, "SOCKET_MODE").is_none() {
        return "error: invalid value for --socket-mode <MODE>: must be octal, in 0..=0777\n\nUsage: thinpool run [OPTIONS] --listen <WHERE> <IMAGE>\n";
    }
    "error: invalid value for --low-water <PERCENT>: must be in 0..=100\n\nUsage: thinpool run [OPTIONS] --listen <WHERE> <IMAGE>\n"
}
