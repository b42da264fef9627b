//! Runs of blocks, as one line of JSON.

ghost use Rattle.std.specs.Prelude.{◌≡◌, ◌+◌, ◌^◌, ◌≤◌, ◌++◌, codes};
ghost use Rattle.arrayvec.specs.ArrayString.{array_string_len};
ghost use Rattle.serde_json.specs.Written.{comma_if, compact_text};
ghost use Rattle.tp_hub.specs.Streams.{IsSent, Makes};
ghost use Rattle.tp_texts.specs.Json.{run_data, runs_json};

use crate::lines::{Lines, make_room, put_number, put_size};
use crate::objects::put_comma;
use tp_hub::{Stream, send_all};
use tp_listings::Extent;

/// Adds the object of a run.
#[tactic(auto, unfolding(serde_json::proofs::OnLiterals::serde_json_on_literals))]
fn put_run_object(lines: &mut Lines, base: u64, unit: u64, first: u32, blocks: u32)
    requires room { array_string_len lines.old + 61 ≤ 4096 }
    requires base { base ≤ 2 ^ 40 }
    requires unit { unit ≤ 1048576 }
    ensures text { lines.new.bytes ≡ lines.old.bytes ++ compact_text (run_data base unit first blocks) }
    ensures short { array_string_len lines.new ≤ array_string_len lines.old + 61 }
{
    lines.push_str("{\"length\":");
    put_size(lines, blocks, unit);
    lines.push_str(",\"offset\":");
    put_number(lines, base + first as u64 * unit);
    lines.push_str("}");
}

/// Adds it behind those before.
fn put_next_run(lines: &mut Lines, is_later: bool, base: u64, unit: u64, extent: Extent)
    requires room { array_string_len lines.old + 62 ≤ 4096 }
    requires base { base ≤ 2 ^ 40 }
    requires unit { unit ≤ 1048576 }
    ensures text { lines.new.bytes ≡ lines.old.bytes ++ (comma_if is_later ++ compact_text (run_data base unit extent.first extent.blocks)) }
    ensures short { array_string_len lines.new ≤ array_string_len lines.old + 62 }
{
    put_comma(lines, is_later);
    put_run_object(lines, base, unit, extent.first, extent.blocks);
}

/// Writes a JSON array of objects `{"length":LENGTH,"offset":OFFSET}`, in bytes, one for each run, of blocks of `unit` bytes of which the first stands at `base`, and a newline,
/// and flushes them. It tells whether the stream took all; else it took a beginning.
pub fn write_runs_json<S: Stream>(stream: &mut S, base: u64, unit: u64, extents: &[Extent]) -> bool
    requires base { base ≤ 2 ^ 40 }
    requires unit { unit ≤ 1048576 }
    ensures { Makes (S.calls stream.old) (S.calls stream.new) (λ did. IsSent (runs_json base unit extents.now ++ codes "\n") did result) }
{
    let mut lines = Lines::new();
    lines.push_str("[");
    let mut is_later = false;
    for extent in extents {
        if !make_room(stream, &mut lines) {
            return false;
        }
        put_next_run(&mut lines, is_later, base, unit, *extent);
        is_later = true;
    }
    if !make_room(stream, &mut lines) {
        return false;
    }
    lines.push_str("]\n");
    send_all(stream, lines.as_str().as_bytes())
}
