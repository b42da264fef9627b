//! Reads what the server sends to a client.

use tp_hub::{Answers, Mark};
use tp_script::{Answer, Buffer, Operation, Request, add_hex_of, add_values, number_at};

/// The first 8 bytes of an option's reply, and the bytes of its head.
const REPLY_MAGIC: u64 = 0x0003_e889_0455_65a9;

const OPTION_HEAD: usize = 20;

/// The types of replies.
const ACKNOWLEDGED: u64 = 1;

const SERVER: u64 = 2;

const INFORMATION: u64 = 3;

const META_CONTEXT: u64 = 4;

/// The bytes that the server sends first.
const GREETING: &[u8] = b"NBDMAGICIHAVEOPT\0\x03";

/// The data of an information on block sizes: at least 512, best 4096, at most 1048576 bytes.
const BLOCK_SIZES: &[u8] = b"\0\x03\0\0\x02\0\0\0\x10\0\0\x10\0\0";

/// Returns whether the server closed the connection.
pub(crate) fn is_closed(out: &Answers) -> bool {
    matches!(out.marks().last(), Some(Mark::End { .. }))
}

/// Returns the answer of an event that failed or closed the connection.
pub(crate) fn failure_in(out: &Answers) -> Option<Answer> {
    match out.marks().last().copied() {
        Some(Mark::Refused { reason }) => Some(Answer::Failed(reason)),
        Some(Mark::End { .. }) => Some(Answer::Closed),
        _ => None,
    }
}

/// The reply to an option: its type and its data.
#[derive(Clone, Copy)]
struct OptionReply<'a> {
    kind: u64,
    data: &'a [u8],
}

/// The replies to an option, taken from the front.
#[derive(Clone, Copy)]
struct OptionReplies<'a> {
    option: u32,
    rest: &'a [u8],
}

impl<'a> OptionReplies<'a> {
    /// Takes the next reply. `None`: there is none, or it is not valid.
    fn next_reply(&mut self) -> Option<OptionReply<'a>> {
        let head = self.rest.get(..OPTION_HEAD)?;
        let len = number_at(head, 16, 4) as usize;
        let data = self.rest.get(OPTION_HEAD..)?.get(..len)?;
        let is_valid = number_at(head, 0, 8) == REPLY_MAGIC
            && number_at(head, 8, 4) == self.option as u64;
        self.rest = self.rest.get(OPTION_HEAD.saturating_add(len)..)?;
        if is_valid {
            Some(OptionReply {
                kind: number_at(head, 12, 4),
                data,
            })
        } else {
            None
        }
    }

    /// Returns the answer of a last reply, which must have no data.
    fn end(&self, reply: OptionReply<'_>) -> Answer {
        if !self.rest.is_empty() || !reply.data.is_empty() {
            return Answer::Strange;
        }
        match reply.kind {
            ACKNOWLEDGED => Answer::Done,
            kind => Answer::Option(u32::try_from(kind).unwrap_or(0)),
        }
    }
}

fn done_if(is_empty: bool) -> Answer {
    if is_empty {
        Answer::Done
    } else {
        Answer::Strange
    }
}

/// Takes the sectors that a READ was answered with.
fn read_answer(request: &Request, bytes: &[u8], values: &mut Buffer) -> Answer {
    let is_whole = bytes.len() as u64 == request.count.saturating_mul(512);
    let have_values = add_values(values, request.sector, bytes);
    if is_whole && have_values {
        Answer::Reported
    } else {
        Answer::Strange
    }
}

/// Reads a simple reply: to a request, or to a FLUSH if there is none.
pub(crate) fn simple_reply(
    out: &Answers,
    request: Option<&Request>,
    cookie: u64,
    values: &mut Buffer,
) -> Answer {
    if let Some(failure) = failure_in(out) {
        return failure;
    }
    let bytes = out.bytes();
    if number_at(bytes, 0, 4) != 0x6744_6698 || number_at(bytes, 8, 8) != cookie {
        return Answer::Strange;
    }
    let error = number_at(bytes, 4, 4);
    let carried = bytes.get(16..).unwrap_or(&[]);
    if error != 0 {
        return match done_if(carried.is_empty()) {
            Answer::Done => Answer::Error(u32::try_from(error).unwrap_or(u32::MAX)),
            strange => strange,
        };
    }
    match request {
        Some(request) => match request.operation {
            Operation::Read { .. } => read_answer(request, carried, values),
            _ => done_if(carried.is_empty()),
        },
        None => done_if(carried.is_empty()),
    }
}

/// Returns the answer of a connection: the server greets, or refuses the number.
pub(crate) fn greeting_reply(out: &Answers) -> Answer {
    match failure_in(out) {
        Some(failure) => failure,
        None if out.bytes() == GREETING => Answer::Done,
        None => Answer::Strange,
    }
}

/// Reports the size of an export in bytes, and its flags.
fn report_export(data: &[u8], report: &mut Buffer) {
    let size = number_at(data, 0, 8);
    let flags = number_at(data, 8, 2);
    report.add_text(format!(in report.alloc(); "size {size} flags {flags:#x}"));
}

/// Takes an information. Returns whether it is a known one.
fn take_information(data: &[u8], report: &mut Buffer) -> bool {
    if data == BLOCK_SIZES {
        return true;
    }
    if data.len() != 12 || number_at(data, 0, 2) != 0 {
        return false;
    }
    report_export(data.get(2..).unwrap_or(&[]), report);
    true
}

/// Reads the replies to INFO (6) or GO (7), of which there are 4 at most.
pub(crate) fn info_reply(out: &Answers, option: u32, report: &mut Buffer) -> Answer {
    if let Some(failure) = failure_in(out) {
        return failure;
    }
    let mut replies = OptionReplies {
        option,
        rest: out.bytes(),
    };
    for _ in 0..4u8 {
        let Some(reply) = replies.next_reply() else {
            break;
        };
        if reply.kind != INFORMATION {
            return match replies.end(reply) {
                Answer::Done if !report.is_empty() => Answer::Reported,
                Answer::Done => Answer::Strange,
                other => other,
            };
        }
        if !take_information(reply.data, report) {
            break;
        }
    }
    Answer::Strange
}

/// Reads the reply to EXPORT_NAME, without padding.
pub(crate) fn export_reply(out: &Answers, report: &mut Buffer) -> Answer {
    if let Some(failure) = failure_in(out) {
        return failure;
    }
    if out.bytes().len() != 10 {
        return Answer::Strange;
    }
    report_export(out.bytes(), report);
    Answer::Reported
}

/// Reports all bytes that were sent, and whether the connection is closed after them.
pub(crate) fn raw_reply(out: &Answers, report: &mut Buffer) -> Answer {
    let failure = failure_in(out);
    if out.bytes().is_empty() {
        return failure.unwrap_or(Answer::Done);
    }
    add_hex_of(report, out.bytes());
    if failure == Some(Answer::Closed) {
        report.add(b" closed");
    }
    Answer::Reported
}

/// Adds the name that follows 4 bytes of a reply's data: the name's length, or the number of its
/// context.
fn add_name(report: &mut Buffer, data: &[u8]) {
    report.separate(b" ");
    report.add(data.get(4..).unwrap_or(&[]))
}

/// Returns whether a reply names an export or a context.
fn is_name(reply: &OptionReply<'_>) -> bool {
    let len = reply.data.len() as u64;
    match reply.kind {
        SERVER => number_at(reply.data, 0, 4).saturating_add(4) == len,
        META_CONTEXT => len > 4,
        _ => false,
    }
}

/// Reads the replies to LIST (3), LIST_META_CONTEXT (9) or SET_META_CONTEXT (10), of which there
/// are 65,537 at most: reports the names, or `none`.
pub(crate) fn names_reply(out: &Answers, option: u32, report: &mut Buffer) -> Answer {
    if let Some(failure) = failure_in(out) {
        return failure;
    }
    let mut replies = OptionReplies {
        option,
        rest: out.bytes(),
    };
    for _ in 0..65_537u32 {
        let Some(reply) = replies.next_reply() else {
            break;
        };
        if !is_name(&reply) {
            return end_names(replies.end(reply), report);
        }
        add_name(report, reply.data);
    }
    Answer::Strange
}

fn end_names(end: Answer, report: &mut Buffer) -> Answer {
    if end != Answer::Done {
        return end;
    }
    report.end_list();
    Answer::Reported
}

/// Reads the reply to an option that reports nothing.
pub(crate) fn option_reply(out: &Answers, option: u32) -> Answer {
    if let Some(failure) = failure_in(out) {
        return failure;
    }
    let mut replies = OptionReplies {
        option,
        rest: out.bytes(),
    };
    match replies.next_reply() {
        Some(reply) => replies.end(reply),
        None => Answer::Strange,
    }
}
