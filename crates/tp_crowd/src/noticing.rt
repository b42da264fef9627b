//! What is seen of a client in what it sent and what it was answered, for the log only.

use nbd_wire::{
    ChunkType, OPTION_GO, ReplyType, read_chunk, read_error, read_option_reply,
    read_simple_reply_head,
};
use tp_hub::{Answers, Mark};

/// The number of `NBD_ENOSPC` (`proto.md`, "Error values").
const NO_SPACE: u32 = 28;

/// The front of `NBD_OPT_GO`, up to the length of its data (`proto.md`, "Option types").
const GO: &[u8] = b"IHAVEOPT\0\0\0\x07";

/// The most bytes that are kept of what a client sent since it was answered last.
const MOST_SENT: usize = 512;

/// The front of what a client sent since it was answered last: an option may come in pieces.
#[derive(Drop)]
pub(crate) struct Unanswered {
    bytes: [u8; MOST_SENT],
    len: usize,
}

impl Unanswered {
    /// Nothing was sent yet.
    pub(crate) fn nothing() -> Unanswered {
        Unanswered {
            bytes: [0; MOST_SENT],
            len: 0,
        }
    }

    /// Adds what was sent, as far as there is room.
    pub(crate) fn add(&mut self, sent: &[u8]) {
        let Some(rest) = self.bytes.get_mut(self.len..) else {
            return;
        };
        let count = rest.len().min(sent.len());
        rest[..count].copy_from_slice(&sent[..count]);
        self.len = self.len.saturating_add(count);
    }

    /// It was answered.
    pub(crate) fn clear(&mut self) {
        self.len = 0;
    }

    /// What is kept.
    pub(crate) fn bytes(&self) -> &[u8] {
        self.bytes.get(..self.len).unwrap_or(&[])
    }
}

/// What a client was answered that is logged.
#[derive(Clone, Copy, Debug, PartialEq, Eq)]
pub(crate) enum Answer {
    /// A request was refused for lack of space.
    NoSpace,
    /// GO named a volume that does not exist.
    NoVolume,
}

/// Whether a simple reply or a chunk says that there is no space.
fn is_no_space(reply: &[u8]) -> bool {
    if let Some((head, _)) = read_simple_reply_head(reply) {
        return head.error == NO_SPACE;
    }
    match read_chunk(reply) {
        Some((chunk, _)) => {
            chunk.kind == ChunkType::Error && read_error(chunk.payload) == Some(NO_SPACE)
        }
        None => false,
    }
}

/// Whether the reply to an option GO says that there is no such volume.
fn is_no_volume(reply: &[u8]) -> bool {
    match read_option_reply(reply) {
        Some((said, _)) => said.option == OPTION_GO && said.reply == ReplyType::Unknown,
        None => false,
    }
}

/// What one reply says that is logged.
fn answer_in(reply: &[u8]) -> Option<Answer> {
    if is_no_space(reply) {
        Some(Answer::NoSpace)
    } else if is_no_volume(reply) {
        Some(Answer::NoVolume)
    } else {
        None
    }
}

/// The last of the answers that is logged, if there is one.
pub(crate) fn noticed(answers: &Answers) -> Option<Answer> {
    let mut rest = answers.bytes();
    let mut found = None;
    for mark in answers.marks() {
        let len = match mark {
            Mark::Sent { len, .. } | Mark::Line { len } => *len,
            Mark::End { .. } | Mark::Refused { .. } | Mark::Done => 0,
        };
        let reply = rest.get(..len).unwrap_or(rest);
        found = answer_in(reply).or(found);
        rest = rest.get(len..).unwrap_or(&[]);
    }
    found
}

/// The name in the last option GO of what a client sent, if it has one.
pub(crate) fn name_in(sent: &[u8]) -> Option<&[u8]> {
    let mut found = None;
    for at in 0..sent.len() {
        let rest = sent.get(at..).unwrap_or(&[]);
        if rest.starts_with(GO) {
            found = name_of(rest).or(found);
        }
    }
    found
}

/// The name in an option GO at the front of a text, as far as it is there: behind the length of the
/// option's data and its own.
fn name_of(text: &[u8]) -> Option<&[u8]> {
    let name = text.get(20..)?;
    let mut len = 0usize;
    for byte in text.get(16..20)? {
        len = len << 8 | usize::from(*byte);
    }
    Some(name.get(..len).unwrap_or(name))
}
