//! Bytes that are added one part after another.

use std::alloc::{AllocError, Global};

/// Bytes to which others are added. After a part for which there was no memory nothing is added, and [`Buffer::is_whole`] is false.
#[derive(Drop)]
pub struct Buffer {
    alloc: Global,
    bytes: Vec<u8>,
    is_whole: bool,
}

impl Buffer {
    /// Returns an empty buffer.
    pub fn new(alloc: Global) -> Buffer {
        Buffer {
            alloc,
            bytes: Vec::new(alloc),
            is_whole: true,
        }
    }

    /// Adds bytes.
    pub fn add(&mut self, bytes: &[u8]) {
        self.is_whole = self.is_whole && self.bytes.extend_from_slice(bytes).is_ok();
    }

    /// Adds a byte.
    pub fn add_byte(&mut self, byte: u8) {
        self.is_whole = self.is_whole && self.bytes.push(byte).is_ok();
    }

    /// Adds a text that was made in memory, if there was some.
    pub fn add_text(&mut self, text: Result<String, AllocError>) {
        match text {
            Ok(text) => self.add(text.as_bytes()),
            Err(_) => self.is_whole = false,
        }
    }

    /// Adds the decimal digits of a number.
    pub fn add_number(&mut self, number: u64) {
        self.add_text(format!(in self.alloc; "{number}"));
    }

    /// Adds a separator, unless the buffer is empty.
    pub fn separate(&mut self, separator: &[u8]) {
        if !self.bytes.is_empty() {
            self.add(separator);
        }
    }

    /// Adds a number to a list of numbers with spaces between.
    pub fn add_to_list(&mut self, number: u64) {
        self.separate(b" ");
        self.add_number(number);
    }

    /// Ends a list, which is `none` if it is empty.
    pub fn end_list(&mut self) {
        if self.bytes.is_empty() {
            self.add(b"none");
        }
    }

    /// Removes all bytes. A failure stays.
    pub fn clear(&mut self) {
        self.bytes.clear();
    }

    /// Returns the allocator.
    pub fn alloc(&self) -> Global {
        self.alloc
    }

    /// Returns whether there are no bytes.
    pub fn is_empty(&self) -> bool {
        self.bytes.is_empty()
    }

    /// Returns the bytes that were added; after a failure, those before it.
    pub fn as_slice(&self) -> &[u8] {
        &self.bytes
    }

    /// Returns the bytes, which a caller may change.
    pub fn as_mut_slice(&mut self) -> &mut [u8] {
        &mut self.bytes
    }

    /// Returns whether there was memory for all parts.
    pub fn is_whole(&self) -> bool {
        self.is_whole
    }
}
