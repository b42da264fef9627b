//! Where two volumes may differ, and the holes between, as one line of JSON.

ghost use Rattle.std.specs.Prelude.{◌≡◌, ◌+◌, ◌-◌, ◌≤◌, ◌++◌, ◌||◌, nat_lt, true, codes};
ghost use Rattle.arrayvec.specs.ArrayString.{array_string_len};
ghost use Rattle.serde_json.specs.Data.{boolean};
ghost use Rattle.serde_json.specs.Written.{comma_if, compact_text};
ghost use Rattle.tp_hub.specs.Streams.{IsSent, Makes};
ghost use Rattle.tp_texts.specs.Json.{delta_json, part_data};
ghost use Rattle.tp_texts.specs.Holes.{hole_object};

use crate::delta::behind;
use crate::lines::{Lines, make_room, put_size};
use crate::objects::put_comma;
use tp_hub::{Stream, send_all};
use tp_listings::Extent;

/// Adds a truth value.
fn put_truth(lines: &mut Lines, is_so: bool)
    requires { array_string_len lines.old + 5 ≤ 4096 }
    ensures text { lines.new.bytes ≡ lines.old.bytes ++ compact_text (boolean is_so) }
    ensures short { array_string_len lines.new ≤ array_string_len lines.old + 5 }
{
    if is_so {
        lines.push_str("true");
        return;
    }
    lines.push_str("false");
}

/// Adds the object of a run or of a hole.
#[tactic(auto, unfolding(serde_json::proofs::OnLiterals::serde_json_on_literals))]
fn put_part(lines: &mut Lines, unit: u64, is_data: bool, first: u32, blocks: u32)
    requires room { array_string_len lines.old + 74 ≤ 4096 }
    requires unit { unit ≤ 1048576 }
    ensures text { lines.new.bytes ≡ lines.old.bytes ++ compact_text (part_data unit is_data first blocks) }
    ensures short { array_string_len lines.new ≤ array_string_len lines.old + 74 }
{
    lines.push_str("{\"data\":");
    put_truth(lines, is_data);
    lines.push_str(",\"length\":");
    put_size(lines, blocks, unit);
    lines.push_str(",\"offset\":");
    put_size(lines, first, unit);
    lines.push_str("}");
}

/// Adds it behind those before.
fn put_next_part(
    lines: &mut Lines,
    is_later: bool,
    unit: u64,
    is_data: bool,
    first: u32,
    blocks: u32,
)
    requires room { array_string_len lines.old + 75 ≤ 4096 }
    requires unit { unit ≤ 1048576 }
    ensures text { lines.new.bytes ≡ lines.old.bytes ++ (comma_if is_later ++ compact_text (part_data unit is_data first blocks)) }
    ensures short { array_string_len lines.new ≤ array_string_len lines.old + 75 }
{
    put_comma(lines, is_later);
    put_part(lines, unit, is_data, first, blocks);
}

/// Adds the object of a hole, where there is one between these blocks. It tells whether an object stands there now.
fn put_hole_object(lines: &mut Lines, is_later: bool, unit: u64, from: u64, end: u32) -> bool
    requires room { array_string_len lines.old + 75 ≤ 4096 }
    requires unit { unit ≤ 1048576 }
    ensures later { result ≡ is_later || nat_lt from end }
    ensures text { lines.new.bytes ≡ lines.old.bytes ++ hole_object is_later unit from end }
    ensures short { array_string_len lines.new ≤ array_string_len lines.old + 75 }
{
    if from < end as u64 {
        put_next_part(lines, is_later, unit, false, from as u32, end - from as u32);
        return true;
    }
    is_later
}

/// Adds the objects of a run and of the hole before it.
fn put_part_behind(lines: &mut Lines, is_later: bool, unit: u64, from: u64, extent: Extent)
    requires room { array_string_len lines.old + 150 ≤ 4096 }
    requires unit { unit ≤ 1048576 }
    ensures text { lines.new.bytes ≡ lines.old.bytes
        ++ (hole_object is_later unit from extent.first ++ (comma_if (is_later || nat_lt from extent.first) ++ compact_text (part_data unit true extent.first extent.blocks))) }
    ensures short { array_string_len lines.new ≤ array_string_len lines.old + 150 }
{
    let follows = put_hole_object(lines, is_later, unit, from, extent.first);
    put_next_part(lines, follows, unit, true, extent.first, extent.blocks);
}

/// Writes a JSON array of objects `{"data":BOOL,"length":LENGTH,"offset":OFFSET}`, in bytes, and a newline, and flushes them: one for each run of blocks of `unit` bytes, where `data`
/// is true, and one for the blocks between two of them, before the first, and behind the last up to the block `end`, where it is false. It tells whether the stream took all; else it
/// took a beginning.
pub fn write_delta_json<S: Stream>(stream: &mut S, unit: u64, end: u32, extents: &[Extent]) -> bool
    requires unit { unit ≤ 1048576 }
    ensures { Makes (S.calls stream.old) (S.calls stream.new) (λ did. IsSent (delta_json unit end extents.now ++ codes "\n") did result) }
{
    let mut lines = Lines::new();
    lines.push_str("[");
    let mut from = 0;
    let mut is_later = false;
    for extent in extents {
        if !make_room(stream, &mut lines) {
            return false;
        }
        put_part_behind(&mut lines, is_later, unit, from, *extent);
        from = behind(extent.first, extent.blocks);
        is_later = true;
    }
    if !make_room(stream, &mut lines) {
        return false;
    }
    put_end(&mut lines, is_later, unit, from, end);
    send_all(stream, lines.as_str().as_bytes())
}

/// Adds the object of the hole behind the last run, and the end of the array.
fn put_end(lines: &mut Lines, is_later: bool, unit: u64, from: u64, end: u32)
    requires room { array_string_len lines.old + 77 ≤ 4096 }
    requires unit { unit ≤ 1048576 }
    ensures { lines.new.bytes ≡ lines.old.bytes ++ (hole_object is_later unit from end ++ codes "]\n") }
{
    put_hole_object(lines, is_later, unit, from, end);
    lines.push_str("]\n");
}
