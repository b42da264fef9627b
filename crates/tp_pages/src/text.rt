//! The text of a page.

ghost use Rattle.std.specs.Prelude.{◌≡◌, ◌+◌, ◌≤◌, ◌++◌, [], codes, length};
ghost use Rattle.std.specs.Fmt.{decimal};
ghost use Rattle.arrayvec.specs.ArrayString.{array_string_len};
ghost use Rattle.tp_model.specs.Slots.{listed};
ghost use Rattle.tp_pages.specs.Pages.{IsPageText};
ghost use Rattle.tp_pages.specs.Texts.{end_text, page_text, run_text, runs_text, size_text};

use arrayvec::ArrayString;
use itoa::Buffer;
use tp_listings::{Extent, page_of};
use tp_model::{Slot, Vb};

/// A line that each page fits.
pub type PageLine = ArrayString<320>;

/// Adds a number.
fn put_number(line: &mut PageLine, number: u64)
    requires { array_string_len line.old + 20 ≤ 320 }
    ensures text { line.new.bytes ≡ line.old.bytes ++ decimal number }
    ensures short { array_string_len line.new ≤ array_string_len line.old + 20 }
{
    let mut digits = Buffer::new();
    line.push_str(digits.format(number));
}

/// Adds `OFFSET+LENGTH` of a run, in bytes.
fn put_run(line: &mut PageLine, unit: u64, first: u32, blocks: u32)
    requires room { array_string_len line.old + 41 ≤ 320 }
    requires unit { unit ≤ 1048576 }
    ensures text { line.new.bytes ≡ line.old.bytes ++ run_text unit first blocks }
    ensures short { array_string_len line.new ≤ array_string_len line.old + 41 }
{
    put_number(line, first as u64 * unit);
    line.push_str("+");
    put_number(line, blocks as u64 * unit);
}

/// Adds it with a space behind it.
fn put_spaced_run(line: &mut PageLine, unit: u64, first: u32, blocks: u32)
    requires room { array_string_len line.old + 42 ≤ 320 }
    requires unit { unit ≤ 1048576 }
    ensures text { line.new.bytes ≡ line.old.bytes ++ (run_text unit first blocks ++ codes " ") }
    ensures short { array_string_len line.new ≤ array_string_len line.old + 42 }
{
    put_run(line, unit, first, blocks);
    line.push_str(" ");
}

/// Writes the runs of a page.
fn put_runs(line: &mut PageLine, unit: u64, extents: &[Extent])
    requires unit { unit ≤ 1048576 }
    requires few { length extents.now ≤ 7 }
    ensures text { line.new.bytes ≡ runs_text unit extents.now }
    ensures short { array_string_len line.new ≤ 294 }
{
    line.clear();
    for extent in extents {
        put_spaced_run(line, unit, extent.first, extent.blocks);
    }
}

/// Writes `SIZE BLOCK` of a volume of so many blocks.
pub(crate) fn put_sizes(line: &mut PageLine, unit: u64, blocks: u32)
    requires { unit ≤ 1048576 }
    ensures { line.new.bytes ≡ size_text unit blocks }
{
    line.clear();
    put_number(line, blocks as u64 * unit);
    line.push_str(" ");
    put_number(line, unit);
}

/// Adds where the next page begins, or that there is none.
fn put_end(line: &mut PageLine, most: u32, end: u32)
    requires { array_string_len line.old ≤ 294 }
    ensures { line.new.bytes ≡ line.old.bytes ++ end_text most end }
{
    if end < most {
        line.push_str("next ");
        put_number(line, end as u64);
        return;
    }
    line.push_str("end");
}

/// Writes the line of a page.
fn put_page(line: &mut PageLine, unit: u64, most: u32, extents: &[Extent], end: u32)
    requires unit { unit ≤ 1048576 }
    requires few { length extents.now ≤ 7 }
    ensures { line.new.bytes ≡ page_text unit most extents.now end }
{
    put_runs(line, unit, extents);
    put_end(line, most, end);
}

/// Writes the line of a page of the blocks from `from` on in which a volume of `most` blocks may differ from another, by the slots that a walk over each lists from there. unit: the
/// bytes of a block.
pub(crate) fn put_delta(
    line: &mut PageLine,
    unit: u64,
    from: Vb,
    most: u32,
    old: &[Slot],
    new: &[Slot],
)
    requires unit { unit ≤ 1048576 }
    requires most { most ≤ 16777216 }
    ensures { IsPageText unit from most (listed old.now) (listed new.now) line.new.bytes }
{
    let page = page_of(old, new, from, most);
    put_page(line, unit, most, &page.extents, page.end);
}

/// The same of the blocks of a volume that are mapped.
pub(crate) fn put_map(line: &mut PageLine, unit: u64, from: Vb, slots: &[Slot])
    requires { unit ≤ 1048576 }
    ensures { IsPageText unit from 16777216 [] (listed slots.now) line.new.bytes }
{
    put_delta(line, unit, from, 16_777_216, &[], slots);
}
