//! The contents of sectors. A sector is filled with one value; unless that is 0, its first 8 bytes are its number.

use crate::buffer::Buffer;

/// Bytes of a sector.
pub const SECTOR: usize = 512;

/// Reported in place of a value if a sector has none.
const NO_VALUE: u8 = 255;

fn fill_sector(bytes: &mut [u8; SECTOR], sector: u64, value: u8) {
    *bytes = [value; SECTOR];
    if value != 0 {
        let (head, _) = bytes.split_at_mut(8);
        head.copy_from_slice(&sector.to_le_bytes());
    }
}

/// Adds sectors that are filled with a value, from this sector on.
pub fn add_fill(out: &mut Buffer, sector: u64, count: u64, value: u8) {
    let mut bytes = [0; SECTOR];
    for number in 0..count {
        fill_sector(&mut bytes, sector.saturating_add(number), value);
        out.add(&bytes);
    }
}

/// Returns whether each byte is this one.
fn are_all(bytes: &[u8], value: u8) -> bool {
    let mut differences: u8 = 0;
    for byte in bytes {
        differences |= *byte ^ value;
    }
    differences == 0
}

/// Returns the value that fills this sector, if one does.
fn value_of(bytes: &[u8], sector: u64) -> Option<u8> {
    let value = bytes.last().copied()?;
    if bytes.len() != SECTOR {
        return None;
    }
    let (head, rest) = bytes.split_at(8);
    if !are_all(rest, value) {
        return None;
    }
    let is_numbered = value != 0 && head == sector.to_le_bytes().as_slice();
    if is_numbered || are_all(head, value) {
        Some(value)
    } else {
        None
    }
}

/// Adds the values of sectors from this one on, of which these are the bytes. Returns whether each sector has a value.
pub fn add_values(values: &mut Buffer, first: u64, bytes: &[u8]) -> bool {
    let mut have_values = true;
    for number in 0..bytes.len() / SECTOR {
        let sector = bytes.get(number * SECTOR..).unwrap_or(&[]);
        let sector = sector.get(..SECTOR).unwrap_or(&[]);
        let value = value_of(sector, first.saturating_add(number as u64));
        have_values = have_values && value.is_some();
        values.add_byte(value.unwrap_or(NO_VALUE));
    }
    have_values
}

/// Adds the value 0 for `count` sectors.
pub fn zero_values(values: &mut Buffer, count: u64) {
    for _ in 0..count {
        values.add_byte(0);
    }
}

/// A value, and how often it follows itself.
#[derive(Clone, Copy)]
struct Run {
    value: u8,
    count: usize,
}

fn add_run(out: &mut Buffer, run: Run) {
    if run.count == 0 {
        return;
    }
    out.separate(b" ");
    out.add_number(run.value as u64);
    if run.count > 1 {
        out.add(b"*");
        out.add_number(run.count as u64);
    }
}

/// Adds values as a list of runs: `0*127 7*2 0`.
pub fn add_runs(out: &mut Buffer, values: &[u8]) {
    let mut run = Run { value: 0, count: 0 };
    for value in values {
        if *value == run.value {
            run.count = run.count.saturating_add(1);
        } else {
            add_run(out, run);
            run = Run {
                value: *value,
                count: 1,
            };
        }
    }
    add_run(out, run);
}
