//! Where two volumes may differ, and the holes between, a line each.

ghost use Rattle.std.specs.Prelude.{◌≡◌, ◌+◌, ◌<◌, ◌≤◌, ◌^◌, ◌++◌, codes};
ghost use Rattle.arrayvec.specs.ArrayString.{array_string_len};
ghost use Rattle.tp_hub.specs.Streams.{IsSent, Makes};
ghost use Rattle.tp_texts.specs.Texts.{delta_text, hole_text, run_text};

use crate::lines::{Lines, make_room};
use crate::runs::{put_run, put_run_line};
use tp_hub::{Stream, send_all};
use tp_listings::Extent;

/// The block behind a run.
pub fn behind(first: u32, blocks: u32) -> u64
    ensures value { result ≡ first + blocks }
    ensures bound { result < 2 ^ 33 }
{
    first as u64 + blocks as u64
}

/// Adds the line of a hole, where there is one between these blocks.
fn put_hole(lines: &mut Lines, unit: u64, from: u64, end: u32)
    requires room { array_string_len lines.old + 47 ≤ 4096 }
    requires unit { unit ≤ 1048576 }
    ensures text { lines.new.bytes ≡ lines.old.bytes ++ hole_text unit from end }
    ensures short { array_string_len lines.new ≤ array_string_len lines.old + 47 }
{
    if from < end as u64 {
        put_run(lines, 0, unit, from as u32, end - from as u32);
        lines.push_str(" hole\n");
    }
}

/// Adds the lines of a run and of the hole before it.
fn put_run_behind(lines: &mut Lines, unit: u64, from: u64, first: u32, blocks: u32)
    requires room { array_string_len lines.old + 89 ≤ 4096 }
    requires unit { unit ≤ 1048576 }
    ensures text { lines.new.bytes ≡ lines.old.bytes ++ (hole_text unit from first ++ (run_text 0 unit first blocks ++ codes "\n")) }
    ensures short { array_string_len lines.new ≤ array_string_len lines.old + 89 }
{
    put_hole(lines, unit, from, first);
    put_run_line(lines, 0, unit, first, blocks);
}

/// Writes a line `OFFSET LENGTH`, in bytes, for each run of blocks of `unit` bytes, and one `OFFSET LENGTH hole` for the blocks between two of them, before the first,
/// and behind the last up to the block `end`; and flushes them. It tells whether the stream took all; else it took a beginning.
pub fn write_delta<S: Stream>(stream: &mut S, unit: u64, end: u32, extents: &[Extent]) -> bool
    requires unit { unit ≤ 1048576 }
    ensures { Makes (S.calls stream.old) (S.calls stream.new) (λ did. IsSent (delta_text unit end 0 extents.now) did result) }
{
    let mut lines = Lines::new();
    let mut from = 0;
    for extent in extents {
        if !make_room(stream, &mut lines) {
            return false;
        }
        put_run_behind(&mut lines, unit, from, extent.first, extent.blocks);
        from = behind(extent.first, extent.blocks);
    }
    if !make_room(stream, &mut lines) {
        return false;
    }
    put_hole(&mut lines, unit, from, end);
    send_all(stream, lines.as_str().as_bytes())
}
