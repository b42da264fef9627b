//! Lines that wait in a buffer until they are written.

ghost use Rattle.std.specs.Prelude.{◌≡◌, ◌+◌, ◌*◌, ◌≤◌, ◌++◌, IsTrue};
ghost use Rattle.std.specs.Fmt.{decimal};
ghost use Rattle.arrayvec.specs.ArrayString.{array_string_len};
ghost use Rattle.tp_texts.specs.Writing.{MovesOn};

use arrayvec::ArrayString;
use itoa::Buffer;
use tp_hub::{Stream, write_out};

/// So many bytes wait at most.
const ROOM: usize = 4096;

/// More than the lines of one entry have.
const ENTRY: usize = 160;

/// Lines that wait to be written.
pub type Lines = ArrayString<ROOM>;

/// Makes room for the lines of one entry: where there is too little, what waits is written. It tells whether the stream took all.
pub fn make_room<S: Stream>(stream: &mut S, lines: &mut Lines) -> bool
    ensures room { IsTrue result → array_string_len lines.new + 160 ≤ 4096 }
    ensures wrote { MovesOn (S.calls stream.old) (S.calls stream.new) lines.old.bytes lines.new.bytes result }
{
    if lines.len() + ENTRY <= ROOM {
        return true;
    }
    if !write_out(stream, lines.as_str().as_bytes()) {
        return false;
    }
    lines.clear();
    true
}

/// Adds a number.
pub fn put_number(lines: &mut Lines, number: u64)
    requires { array_string_len lines.old + 20 ≤ 4096 }
    ensures text { lines.new.bytes ≡ lines.old.bytes ++ decimal number }
    ensures short { array_string_len lines.new ≤ array_string_len lines.old + 20 }
{
    let mut digits = Buffer::new();
    lines.push_str(digits.format(number));
}

/// Adds the bytes of so many blocks, of `unit` bytes each.
pub fn put_size(lines: &mut Lines, blocks: u32, unit: u64)
    requires room { array_string_len lines.old + 20 ≤ 4096 }
    requires unit { unit ≤ 1048576 }
    ensures text { lines.new.bytes ≡ lines.old.bytes ++ decimal (blocks * unit) }
    ensures short { array_string_len lines.new ≤ array_string_len lines.old + 20 }
{
    put_number(lines, blocks as u64 * unit);
}
