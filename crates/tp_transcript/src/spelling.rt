//! Bytes as a transcript spells them.

use crate::arguments::without_spaces;
use tp_script::{Buffer, add_spelled, cut_at, number_of};

/// Bytes that are repeated.
#[derive(Clone, Copy)]
struct Item<'a> {
    /// Hexadecimal digits, or the text of which the bytes are.
    text: &'a [u8],
    is_text: bool,
    count: u64,
}

fn is_digit(byte: u8) -> bool {
    byte.is_ascii_digit() || (b'a'..=b'f').contains(&byte)
}

/// Returns how many hexadecimal digits a text begins with.
fn count_digits(text: &[u8]) -> usize {
    for place in 0..text.len() {
        if !is_digit(text[place]) {
            return place;
        }
    }
    text.len()
}

/// Splits a text after its first digits, or after the text between its quotation marks, which is the first part.
fn cut_bytes(text: &[u8]) -> Option<(&[u8], bool, &[u8])> {
    match text.strip_prefix(b"\"".as_slice()) {
        Some(inner) => {
            let (quoted, rest) = cut_at(inner, b'"');
            Some((quoted, true, rest?))
        }
        None => {
            let count = count_digits(text);
            if count == 0 || count % 2 != 0 {
                return None;
            }
            Some((text.get(..count)?, false, text.get(count..)?))
        }
    }
}

/// Returns the item at the beginning of a text, and the text after it.
fn item_at(text: &[u8]) -> Option<(Item<'_>, &[u8])> {
    let (text, is_text, rest) = cut_bytes(text)?;
    let (count, rest) = match rest.strip_prefix(b"*".as_slice()) {
        Some(factor) => {
            let (digits, rest) = cut_at(factor, b' ');
            (number_of(digits)?, rest.unwrap_or(b""))
        }
        None => (1, rest),
    };
    let item = Item {
        text,
        is_text,
        count,
    };
    Some((item, rest))
}

fn add_item(out: &mut Buffer, item: &Item<'_>) {
    let mut once = Buffer::new(out.alloc());
    if item.is_text {
        once.add(item.text);
    } else {
        add_spelled(&mut once, item.text);
    }
    for _ in 0..item.count {
        out.add(once.as_slice());
    }
}

/// Adds the bytes that items spell. Returns whether the text has nothing but items.
pub(crate) fn add_items(out: &mut Buffer, text: &[u8]) -> bool {
    let mut rest = without_spaces(text);
    for _ in 0..text.len() {
        if rest.is_empty() {
            break;
        }
        let Some((item, after)) = item_at(rest) else {
            return false;
        };
        add_item(out, &item);
        rest = without_spaces(after);
    }
    true
}
