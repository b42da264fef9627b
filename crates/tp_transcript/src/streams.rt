//! Standard input and output of a program that is played.

use std::io::{self, ErrorKind, Read, Write};

/// How standard input is read.
#[derive(Clone, Copy, PartialEq, Eq)]
pub enum Reading {
    /// As many bytes as there are.
    Whole,
    /// One byte at a time.
    ByByte,
    /// As many bytes as there are; after the last one a read fails.
    Breaks,
}

/// The bytes of standard input that are not read yet.
#[derive(Drop)]
pub struct Input<'a> {
    pub left: &'a [u8],
    pub reading: Reading,
}

impl<'a> Read for Input<'a> {
    fn read(&mut self, buf: &mut [u8]) -> io::Result<usize> {
        match self.reading {
            Reading::Whole => self.left.read(buf),
            Reading::ByByte => match (self.left.split_first(), buf.first_mut()) {
                (Some((byte, rest)), Some(place)) => {
                    *place = *byte;
                    self.left = rest;
                    Ok(1)
                }
                _ => Ok(0),
            },
            Reading::Breaks => {
                if self.left.is_empty() {
                    return Err(io::Error::from(ErrorKind::ConnectionReset));
                }
                self.left.read(buf)
            }
        }
    }
}

/// What is written to standard output, which fails after some writes.
#[derive(Drop)]
pub struct Output {
    pub taken: Vec<u8>,
    /// The writes that do not fail, or `None` if no write fails.
    pub writes: Option<u64>,
}

impl Write for Output {
    fn write(&mut self, buf: &[u8]) -> io::Result<usize> {
        match self.writes {
            Some(0) => return Err(io::Error::from(ErrorKind::StorageFull)),
            Some(writes) => self.writes = Some(writes.saturating_sub(1)),
            None => {}
        }
        self.taken.extend_from_slice(buf)?;
        Ok(buf.len())
    }

    fn flush(&mut self) -> io::Result<()> {
        Ok(())
    }
}
