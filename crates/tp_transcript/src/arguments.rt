//! The arguments of a command.

use std::alloc::{AllocError, Global};
use tp_script::cut_at;

/// Returns the next argument, which may be quoted, and the text after it.
fn next_argument(text: &[u8]) -> Option<(&[u8], &[u8])> {
    for quote in [b'\'', b'"'] {
        if text.first() == Some(&quote) {
            let (argument, rest) = cut_at(text.get(1..)?, quote);
            return Some((argument, rest?));
        }
    }
    let (argument, rest) = cut_at(text, b' ');
    Some((argument, rest.unwrap_or(b"")))
}

/// Returns the text without spaces at its beginning.
pub(crate) fn without_spaces(text: &[u8]) -> &[u8] {
    let mut rest = text;
    for _ in 0..text.len() {
        match rest.strip_prefix(b" ".as_slice()) {
            Some(after) => rest = after,
            None => break,
        }
    }
    rest
}

/// Returns the next argument as a text, and what is after it and its spaces.
fn next_text(text: &[u8]) -> Option<(&str, &[u8])> {
    let (argument, rest) = next_argument(text)?;
    match std::str::from_utf8(argument) {
        Ok(argument) => Some((argument, without_spaces(rest))),
        Err(_) => None,
    }
}

/// Returns the arguments of a command, its name first; or `None` if a quotation mark or UTF-8 is missing.
pub fn arguments_of(alloc: Global, command: &[u8]) -> Result<Option<Vec<&str>>, AllocError> {
    let mut found = Vec::new(alloc);
    let mut rest = without_spaces(command);
    for _ in 0..command.len() {
        if rest.is_empty() {
            break;
        }
        let Some((argument, after)) = next_text(rest) else {
            return Ok(None);
        };
        found.push(argument)?;
        rest = after;
    }
    Ok(Some(found))
}
