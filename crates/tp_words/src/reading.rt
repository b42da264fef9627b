//! The words as the system has them.

use std::alloc::{AllocError, Global};
use std::env::FillError;
use std::rt::Env;

/// How many bytes of a word are read at first.
const ROOM: usize = 256;

/// Why there are no words.
#[derive(Clone, Copy, Debug, PartialEq, Eq)]
pub enum NoWords {
    /// The argument of this number is no UTF-8. The program's name is that of number 0.
    NotUtf8(usize),
    /// There is no memory for them.
    Memory,
}

/// The words of the command line, the first of them the program's name.
///
/// `NotUtf8` with the number of the first one that is none.
pub fn words<E: Env>(env: &E, alloc: Global) -> Result<Vec<String>, NoWords> {
    let mut words = Vec::new(alloc);
    for number in 0..usize::MAX {
        match word_of(env, alloc, number)? {
            Some(word) => {
                if words.push(word).is_err() {
                    return Err(NoWords::Memory);
                }
            }
            None => break,
        }
    }
    Ok(words)
}

/// The word of this number, if there are so many.
fn word_of<E: Env>(env: &E, alloc: Global, number: usize) -> Result<Option<String>, NoWords> {
    match bytes_of(env, alloc, number) {
        Ok(Some(bytes)) => match String::from_utf8(bytes) {
            Ok(word) => Ok(Some(word)),
            Err(_) => Err(NoWords::NotUtf8(number)),
        },
        Ok(None) => Ok(None),
        Err(_) => Err(NoWords::Memory),
    }
}

/// Its bytes. The room for them is doubled until they fit.
fn bytes_of<E: Env>(env: &E, alloc: Global, number: usize) -> Result<Option<Vec<u8>>, AllocError> {
    let mut room = ROOM;
    for _ in 0..usize::BITS {
        let mut bytes = Vec::from_elem(alloc, 0u8, room)?;
        match env.arg(number, &mut bytes) {
            Ok(len) => {
                bytes.truncate(len);
                return Ok(Some(bytes));
            }
            Err(FillError::NotPresent) => return Ok(None),
            Err(FillError::TooLong) => room = room.saturating_mul(2),
        }
    }
    Err(AllocError)
}
