//! The four sizes of a pool, on a line.

ghost use Rattle.std.specs.Prelude.{◌≡◌, ◌+◌, ◌≤◌, ◌++◌, codes};
ghost use Rattle.std.specs.Fmt.{decimal};
ghost use Rattle.arrayvec.specs.ArrayString.{array_string_len};
ghost use Rattle.tp_hub.specs.Streams.{IsSent, Makes};
ghost use Rattle.tp_texts.specs.Texts.{sizes_text};

use crate::lines::{Lines, put_number};
use tp_hub::{Stream, send_all};
use tp_model::Geometry;

/// Adds a number, and a space.
fn put_spaced(lines: &mut Lines, number: u32)
    requires { array_string_len lines.old + 21 ≤ 4096 }
    ensures text { lines.new.bytes ≡ lines.old.bytes ++ (decimal number ++ codes " ") }
    ensures short { array_string_len lines.new ≤ array_string_len lines.old + 21 }
{
    put_number(lines, number as u64);
    lines.push_str(" ");
}

/// Adds the line of the sizes.
fn put_sizes(lines: &mut Lines, geometry: &Geometry)
    requires { array_string_len lines.old + 84 ≤ 4096 }
    ensures { lines.new.bytes ≡ lines.old.bytes ++ sizes_text geometry.now }
{
    put_spaced(lines, geometry.block_sectors());
    put_spaced(lines, geometry.virtual_blocks());
    put_spaced(lines, geometry.metadata_blocks());
    put_number(lines, geometry.data_blocks() as u64);
    lines.push_str("\n");
}

/// Writes the sizes of a pool on a line, as `format` takes them, and flushes it. It tells whether the stream took all; else it took a beginning.
pub fn write_sizes<S: Stream>(stream: &mut S, geometry: &Geometry) -> bool
    ensures { Makes (S.calls stream.old) (S.calls stream.new) (λ did. IsSent (sizes_text geometry.now) did result) }
{
    let mut lines = Lines::new();
    put_sizes(&mut lines, geometry);
    send_all(stream, lines.as_str().as_bytes())
}
