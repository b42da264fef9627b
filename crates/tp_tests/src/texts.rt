//! What clients send.

use std::alloc::{AllocError, Global};

/// A part of what a client sends.
#[derive(Clone, Copy)]
pub(crate) enum Part<'a> {
    /// These bytes.
    Text(&'a [u8]),
    /// So many bytes of this value.
    Fill(u8, u32),
}

/// These parts, one behind the other.
pub(crate) fn joined(alloc: Global, parts: &[Part<'_>]) -> Result<Vec<u8>, AllocError> {
    let mut text = Vec::new(alloc);
    for i in 0..parts.len() {
        add(alloc, &mut text, parts[i])?;
    }
    Ok(text)
}

/// Adds a part.
fn add(alloc: Global, text: &mut Vec<u8>, part: Part<'_>) -> Result<(), AllocError> {
    match part {
        Part::Text(bytes) => text.extend_from_slice(bytes),
        Part::Fill(byte, count) => repeat(alloc, text, byte, count),
    }
}

/// Adds so many bytes of this value.
fn repeat(alloc: Global, text: &mut Vec<u8>, byte: u8, count: u32) -> Result<(), AllocError> {
    let more = Vec::from_elem(alloc, byte, count as usize)?;
    text.extend_from_slice(&more)
}
