//! The tasks that list what is in an image: `ls`, `map`, `delta` and `free`.

ghost use Rattle.std.specs.Prelude.{◌≡◌, ◌⊎◌, MatchOption, codes};
ghost use Rattle.clap.specs.Words.{found_of, rows_of};
ghost use Rattle.tp_tasks.specs.CommandLine.{IsDelta, IsFree, IsList, IsListing, IsMap, LacksListing, LacksNumber, LacksText};

use crate::task::{Listing, Task};
use crate::tasks::{has_flag, number_of, text_of};
use clap::ArgMatches;

/// The task of the subcommand of this name, if it is one that lists.
pub(crate) fn listing_named<'a>(name: &str, arguments: &ArgMatches<'a>) -> Option<Task<'a>>
    ensures { MatchOption result (LacksListing name.now (rows_of (found_of arguments.now))) (λ task. IsListing name.now (rows_of (found_of arguments.now)) task) }
{
    if name == "ls" {
        return list_task(arguments);
    }
    if name == "map" {
        return map_task(arguments);
    }
    if name == "delta" {
        return delta_task(arguments);
    }
    if name == "free" {
        return free_task(arguments);
    }
    None
}

fn list_task<'a>(arguments: &ArgMatches<'a>) -> Option<Task<'a>>
    ensures { MatchOption result (LacksText (codes "IMAGE") (rows_of (found_of arguments.now))) (λ task. IsList (rows_of (found_of arguments.now)) task) }
{
    let image = text_of(arguments, "IMAGE")?;
    let is_json = has_flag(arguments, "JSON");
    Some(Task::Report {
        image,
        listing: Listing::Volumes,
        is_json,
    })
}

fn map_task<'a>(arguments: &ArgMatches<'a>) -> Option<Task<'a>>
    ensures { MatchOption result (LacksText (codes "IMAGE") (rows_of (found_of arguments.now)) ⊎ LacksNumber (codes "ID") (rows_of (found_of arguments.now)))
        (λ task. IsMap (rows_of (found_of arguments.now)) task) }
{
    let image = text_of(arguments, "IMAGE")?;
    let id = number_of(arguments, "ID")?;
    let is_json = has_flag(arguments, "JSON");
    Some(Task::Report {
        image,
        listing: Listing::Map(id),
        is_json,
    })
}

fn delta_task<'a>(arguments: &ArgMatches<'a>) -> Option<Task<'a>>
    ensures { MatchOption result
        (LacksText (codes "IMAGE") (rows_of (found_of arguments.now)) ⊎ LacksNumber (codes "OLD") (rows_of (found_of arguments.now)) ⊎ LacksNumber (codes "NEW") (rows_of (found_of arguments.now)))
        (λ task. IsDelta (rows_of (found_of arguments.now)) task) }
{
    let image = text_of(arguments, "IMAGE")?;
    let old = number_of(arguments, "OLD")?;
    let new = number_of(arguments, "NEW")?;
    let is_json = has_flag(arguments, "JSON");
    if has_flag(arguments, "AT") {
        return Some(Task::DeltaAt {
            place: image,
            old,
            new,
            is_json,
        });
    }
    let listing = Listing::Delta(old, new);
    Some(Task::Report {
        image,
        listing,
        is_json,
    })
}

fn free_task<'a>(arguments: &ArgMatches<'a>) -> Option<Task<'a>>
    ensures { MatchOption result (LacksText (codes "IMAGE") (rows_of (found_of arguments.now))) (λ task. IsFree (rows_of (found_of arguments.now)) task) }
{
    let image = text_of(arguments, "IMAGE")?;
    let is_json = has_flag(arguments, "JSON");
    Some(Task::Report {
        image,
        listing: Listing::Free,
        is_json,
    })
}
