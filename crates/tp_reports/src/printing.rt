//! A listing is printed as lines, or as one line of JSON.
ghost use Rattle.std.specs.Prelude.{◌≡◌, ◌≤◌, ◌^◌};
ghost use Rattle.tp_hub.specs.Streams.{IsSent, Makes};
ghost use Rattle.tp_reports.specs.Reports.{delta_in, runs_in, usages_in};

use tp_hub::Stream;
use tp_listings::{Extent, Usage};
use tp_texts::{
    write_delta, write_delta_json, write_runs, write_runs_json, write_usages, write_usages_json,
};

pub(crate) fn print_runs<S: Stream>(
    stream: &mut S,
    is_json: bool,
    base: u64,
    unit: u64,
    extents: &[Extent],
) -> bool
    requires base { base ≤ 2 ^ 40 }
    requires unit { unit ≤ 1048576 }
    ensures { Makes (S.calls stream.old) (S.calls stream.new) (λ did. IsSent (runs_in is_json base unit extents.now) did result) }
{
    if is_json {
        return write_runs_json(stream, base, unit, extents);
    }
    write_runs(stream, base, unit, extents)
}

pub(crate) fn print_delta<S: Stream>(
    stream: &mut S,
    is_json: bool,
    unit: u64,
    end: u32,
    extents: &[Extent],
) -> bool
    requires unit { unit ≤ 1048576 }
    ensures { Makes (S.calls stream.old) (S.calls stream.new) (λ did. IsSent (delta_in is_json unit end extents.now) did result) }
{
    if is_json {
        return write_delta_json(stream, unit, end, extents);
    }
    write_delta(stream, unit, end, extents)
}

pub(crate) fn print_usages<S: Stream>(
    stream: &mut S,
    is_json: bool,
    unit: u64,
    is_held: bool,
    usages: &[Usage],
) -> bool
    requires unit { unit ≤ 1048576 }
    ensures { Makes (S.calls stream.old) (S.calls stream.new) (λ did. IsSent (usages_in is_json unit is_held usages.now) did result) }
{
    if is_json {
        return write_usages_json(stream, unit, is_held, usages);
    }
    write_usages(stream, unit, is_held, usages)
}
