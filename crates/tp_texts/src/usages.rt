//! What each volume has, a line each.

ghost use Rattle.std.specs.Prelude.{◌≡◌, ◌+◌, ◌*◌, ◌≤◌, ◌++◌, codes, if◌then◌else◌};
ghost use Rattle.std.specs.Fmt.{decimal};
ghost use Rattle.arrayvec.specs.ArrayString.{array_string_len};
ghost use Rattle.tp_hub.specs.Streams.{IsSent, Makes};
ghost use Rattle.tp_texts.specs.Texts.{usage_text, usages_text};

use crate::lines::{Lines, make_room, put_number, put_size};
use tp_hub::{Stream, send_all};
use tp_listings::Usage;

/// Adds a size in bytes, and a space.
fn put_field(lines: &mut Lines, blocks: u32, unit: u64)
    requires room { array_string_len lines.old + 21 ≤ 4096 }
    requires unit { unit ≤ 1048576 }
    ensures text { lines.new.bytes ≡ lines.old.bytes ++ (decimal (blocks * unit) ++ codes " ") }
    ensures short { array_string_len lines.new ≤ array_string_len lines.old + 21 }
{
    put_size(lines, blocks, unit);
    lines.push_str(" ");
}

/// Adds what a volume has alone, in bytes, and the line's end. It is not told while a mapping is held.
fn put_exclusive(lines: &mut Lines, unit: u64, is_held: bool, exclusive: u32)
    requires room { array_string_len lines.old + 21 ≤ 4096 }
    requires unit { unit ≤ 1048576 }
    ensures text { lines.new.bytes ≡ lines.old.bytes ++ ((if is_held then codes "-" else decimal (exclusive * unit)) ++ codes "\n") }
    ensures short { array_string_len lines.new ≤ array_string_len lines.old + 21 }
{
    if is_held {
        lines.push_str("-\n");
        return;
    }
    put_size(lines, exclusive, unit);
    lines.push_str("\n");
}

/// Adds the line of a volume.
fn put_usage(lines: &mut Lines, unit: u64, is_held: bool, usage: Usage)
    requires room { array_string_len lines.old + 84 ≤ 4096 }
    requires unit { unit ≤ 1048576 }
    ensures text { lines.new.bytes ≡ lines.old.bytes ++ usage_text unit is_held usage }
    ensures short { array_string_len lines.new ≤ array_string_len lines.old + 84 }
{
    put_number(lines, usage.id as u64);
    lines.push_str(" ");
    put_field(lines, usage.blocks, unit);
    put_field(lines, usage.mapped, unit);
    put_exclusive(lines, unit, is_held, usage.exclusive);
}

/// Writes a line of the columns' names, and a line `ID SIZE MAPPED EXCLUSIVE` for each volume, with sizes in bytes, of blocks of `unit` bytes, and flushes them. While a mapping
/// is held, `-` stands for what is exclusive. It tells whether the stream took all; else it took a beginning.
pub fn write_usages<S: Stream>(stream: &mut S, unit: u64, is_held: bool, usages: &[Usage]) -> bool
    requires unit { unit ≤ 1048576 }
    ensures { Makes (S.calls stream.old) (S.calls stream.new) (λ did. IsSent (usages_text unit is_held usages.now) did result) }
{
    let mut lines = Lines::new();
    lines.push_str("ID SIZE MAPPED EXCLUSIVE\n");
    for usage in usages {
        if !make_room(stream, &mut lines) {
            return false;
        }
        put_usage(&mut lines, unit, is_held, *usage);
    }
    send_all(stream, lines.as_str().as_bytes())
}
