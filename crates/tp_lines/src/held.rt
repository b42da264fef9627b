//! The line of a script that is being read.

ghost use Rattle.std.specs.Prelude.{◌≡◌, [], ◌<◌, IfOk, length, slice_set};
ghost use Rattle.tp_lines.specs.ReadLines.{longer};

use std::alloc::{AllocError, Global};
use std::marker::Model;

/// So much of a line is held: more than the longest line that is one has, but for a message, which is too long to be one by then.
const MOST: usize = 16_400;

/// A line so far, or the first 16400 bytes of it.
#[derive(Drop)]
pub struct HeldLine {
    bytes: Vec<u8>,
    len: usize,
}

impl Model for HeldLine {
    ghost use Rattle.std.specs.Prelude.{◌≡◌, ◌≤◌, List, ℕ, length, take};

    ghost Value = { List ℕ };

    ghost view = { λ l. take l.len l.bytes.items };

    ghost invariant = { λ l. (length l.bytes.items ≡ 16400) × (l.len ≤ 16400) };
}

/// So many zero bytes.
pub fn zeroes(alloc: Global, len: usize) -> Result<Vec<u8>, AllocError>
    ensures { IfOk result (λ v. length v.items ≡ len) }
{
    vec![in alloc; 0u8; len]
}

/// Puts a byte at a place.
fn set(bytes: &mut Vec<u8>, at: usize, byte: u8)
    requires { at < length bytes.old.items }
    ensures { bytes.new.items ≡ slice_set bytes.old.items at byte }
{
    bytes[at] = byte;
}

impl HeldLine {
    /// An empty line. It takes memory for the longest one.
    pub fn new(alloc: Global) -> Result<HeldLine, AllocError>
        ensures { IfOk result (λ line. line ≡ []) }
    {
        let bytes = zeroes(alloc, MOST)?;
        Ok(HeldLine { bytes, len: 0 })
    }

    /// Adds a byte, where there is room for it.
    pub fn add(&mut self, byte: u8)
        ensures { self.new ≡ longer self.old byte }
    {
        if self.len < MOST {
            set(&mut self.bytes, self.len, byte);
            self.len += 1;
        }
    }

    /// Begins the next line.
    pub fn clear(&mut self)
        ensures { self.new ≡ [] }
    {
        self.len = 0;
    }

    /// The line.
    pub fn text(&self) -> &[u8]
        ensures { result.now ≡ self.now }
    {
        &self.bytes[..self.len]
    }
}
