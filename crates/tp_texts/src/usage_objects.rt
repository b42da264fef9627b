//! What each volume has, as one line of JSON.

ghost use Rattle.std.specs.Prelude.{◌≡◌, ◌+◌, ◌≤◌, ◌++◌, codes, true};
ghost use Rattle.std.specs.Fmt.{decimal};
ghost use Rattle.arrayvec.specs.ArrayString.{array_string_len};
ghost use Rattle.serde_json.specs.Written.{comma_if, compact_text, members_text};
ghost use Rattle.tp_hub.specs.Streams.{IsSent, Makes};
ghost use Rattle.tp_texts.specs.Json.{exclusive_data, sizes_data, usage_data, usages_json};

use crate::lines::{Lines, make_room, put_number, put_size};
use crate::objects::put_comma;
use tp_hub::{Stream, send_all};
use tp_listings::Usage;

/// Adds what a volume has alone, in bytes. It is null while a mapping is held.
fn put_exclusive_value(lines: &mut Lines, unit: u64, is_held: bool, exclusive: u32)
    requires room { array_string_len lines.old + 20 ≤ 4096 }
    requires unit { unit ≤ 1048576 }
    ensures text { lines.new.bytes ≡ lines.old.bytes ++ compact_text (exclusive_data unit is_held exclusive) }
    ensures short { array_string_len lines.new ≤ array_string_len lines.old + 20 }
{
    if is_held {
        lines.push_str("null");
        return;
    }
    put_size(lines, exclusive, unit);
}

/// Adds the object of a volume.
#[tactic(auto, unfolding(serde_json::proofs::OnLiterals::serde_json_on_literals))]
fn put_usage_object(lines: &mut Lines, unit: u64, is_held: bool, usage: Usage)
    requires room { array_string_len lines.old + 118 ≤ 4096 }
    requires unit { unit ≤ 1048576 }
    ensures text { lines.new.bytes ≡ lines.old.bytes ++ compact_text (usage_data unit is_held usage) }
    ensures short { array_string_len lines.new ≤ array_string_len lines.old + 118 }
{
    lines.push_str("{\"exclusive\":");
    put_exclusive_value(lines, unit, is_held, usage.exclusive);
    lines.push_str(",\"id\":");
    put_sizes_behind(lines, unit, usage);
}

/// Adds what follows the name of its id.
#[tactic(auto, unfolding(serde_json::proofs::OnLiterals::serde_json_on_literals))]
fn put_sizes_behind(lines: &mut Lines, unit: u64, usage: Usage)
    requires room { array_string_len lines.old + 79 ≤ 4096 }
    requires unit { unit ≤ 1048576 }
    ensures text { lines.new.bytes ≡ lines.old.bytes ++ (decimal usage.id ++ members_text true (sizes_data unit usage)) }
    ensures short { array_string_len lines.new ≤ array_string_len lines.old + 79 }
{
    put_number(lines, usage.id as u64);
    lines.push_str(",\"mapped\":");
    put_size(lines, usage.mapped, unit);
    lines.push_str(",\"size\":");
    put_size(lines, usage.blocks, unit);
    lines.push_str("}");
}

/// Adds it behind those before.
fn put_next_usage(lines: &mut Lines, is_later: bool, unit: u64, is_held: bool, usage: Usage)
    requires room { array_string_len lines.old + 119 ≤ 4096 }
    requires unit { unit ≤ 1048576 }
    ensures text { lines.new.bytes ≡ lines.old.bytes ++ (comma_if is_later ++ compact_text (usage_data unit is_held usage)) }
    ensures short { array_string_len lines.new ≤ array_string_len lines.old + 119 }
{
    put_comma(lines, is_later);
    put_usage_object(lines, unit, is_held, usage);
}

/// Writes a JSON array of objects `{"exclusive":EXCLUSIVE,"id":ID,"mapped":MAPPED,"size":SIZE}`, one for each volume, with sizes in bytes, of blocks of `unit` bytes, and a newline,
/// and flushes them. While a mapping is held, what is exclusive is null. It tells whether the stream took all; else it took a beginning.
pub fn write_usages_json<S: Stream>(
    stream: &mut S,
    unit: u64,
    is_held: bool,
    usages: &[Usage],
) -> bool
    requires unit { unit ≤ 1048576 }
    ensures { Makes (S.calls stream.old) (S.calls stream.new) (λ did. IsSent (usages_json unit is_held usages.now ++ codes "\n") did result) }
{
    let mut lines = Lines::new();
    lines.push_str("[");
    let mut is_later = false;
    for usage in usages {
        if !make_room(stream, &mut lines) {
            return false;
        }
        put_next_usage(&mut lines, is_later, unit, is_held, *usage);
        is_later = true;
    }
    if !make_room(stream, &mut lines) {
        return false;
    }
    lines.push_str("]\n");
    send_all(stream, lines.as_str().as_bytes())
}
