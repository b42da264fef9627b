//! Runs of blocks, a line each.

ghost use Rattle.std.specs.Prelude.{◌≡◌, ◌+◌, ◌^◌, ◌≤◌, ◌++◌, codes};
ghost use Rattle.arrayvec.specs.ArrayString.{array_string_len};
ghost use Rattle.tp_hub.specs.Streams.{IsSent, Makes};
ghost use Rattle.tp_texts.specs.Texts.{run_text, runs_text};

use crate::lines::{Lines, make_room, put_number, put_size};
use tp_hub::{Stream, send_all};
use tp_listings::Extent;

/// Adds `OFFSET LENGTH` of a run, in bytes.
pub fn put_run(lines: &mut Lines, base: u64, unit: u64, first: u32, blocks: u32)
    requires room { array_string_len lines.old + 41 ≤ 4096 }
    requires base { base ≤ 2 ^ 40 }
    requires unit { unit ≤ 1048576 }
    ensures text { lines.new.bytes ≡ lines.old.bytes ++ run_text base unit first blocks }
    ensures short { array_string_len lines.new ≤ array_string_len lines.old + 41 }
{
    put_number(lines, base + first as u64 * unit);
    lines.push_str(" ");
    put_size(lines, blocks, unit);
}

/// Adds the line of a run.
pub fn put_run_line(lines: &mut Lines, base: u64, unit: u64, first: u32, blocks: u32)
    requires room { array_string_len lines.old + 42 ≤ 4096 }
    requires base { base ≤ 2 ^ 40 }
    requires unit { unit ≤ 1048576 }
    ensures text { lines.new.bytes ≡ lines.old.bytes ++ (run_text base unit first blocks ++ codes "\n") }
    ensures short { array_string_len lines.new ≤ array_string_len lines.old + 42 }
{
    put_run(lines, base, unit, first, blocks);
    lines.push_str("\n");
}

/// Writes a line `OFFSET LENGTH`, in bytes, for each run, of blocks of `unit` bytes of which the first stands at `base`, and flushes them. It tells whether the stream
/// took all; else it took a beginning.
pub fn write_runs<S: Stream>(stream: &mut S, base: u64, unit: u64, extents: &[Extent]) -> bool
    requires base { base ≤ 2 ^ 40 }
    requires unit { unit ≤ 1048576 }
    ensures { Makes (S.calls stream.old) (S.calls stream.new) (λ did. IsSent (runs_text base unit extents.now) did result) }
{
    let mut lines = Lines::new();
    for extent in extents {
        if !make_room(stream, &mut lines) {
            return false;
        }
        put_run_line(&mut lines, base, unit, extent.first, extent.blocks);
    }
    send_all(stream, lines.as_str().as_bytes())
}
