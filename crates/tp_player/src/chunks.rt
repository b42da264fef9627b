//! Reads replies in chunks.

use crate::replies::failure_in;
use tp_hub::Answers;
use tp_script::{Answer, Buffer, Operation, Request, add_values, number_at, zero_values};

/// Bytes of the head of a chunk.
const HEAD: usize = 20;

/// The most sectors of a hole. A longer one is strange.
const MOST_IN_HOLE: u64 = 65_536;

/// A reply that is being read.
#[derive(Drop)]
struct Reply<'a> {
    /// The bytes that are left.
    rest: &'a [u8],
    cookie: u64,
    /// The sector that the next chunk of data must begin at.
    sector: u64,
    is_done: bool,
    /// The error of the request, if a chunk reports one.
    error: Option<u32>,
}

/// A chunk: its type and its data.
#[derive(Clone, Copy)]
struct Chunk<'a> {
    kind: u64,
    data: &'a [u8],
}

/// Adds a word and a number to a list with commas between.
fn add_part(report: &mut Buffer, word: &str, number: u64) {
    report.separate(b", ");
    report.add(word.as_bytes());
    report.add(b" ");
    report.add_number(number);
}

fn status_word(context: u64, status: u64) -> &'static str {
    match (context, status) {
        (1, 0) => "data",
        (1, 3) => "hole",
        (2, 0) => "same",
        (2, 1) => "changed",
        _ => "strange",
    }
}

/// Reports the extents of a chunk of block status, in sectors.
fn report_extents(report: &mut Buffer, data: &[u8]) {
    let context = number_at(data, 0, 4);
    for number in 0..data.len() / 8 {
        let at = number.saturating_mul(8).saturating_add(4);
        if at.saturating_add(8) <= data.len() {
            let sectors = number_at(data, at, 4) / 512;
            let word = status_word(context, number_at(data, at.saturating_add(4), 4));
            add_part(report, word, sectors);
        }
    }
}

impl<'a> Reply<'a> {
    /// Takes the next chunk, unless the reply is done. `None`: its head is not valid.
    fn next_chunk(&mut self) -> Option<Chunk<'a>> {
        let head = self.rest.get(..HEAD)?;
        let len = number_at(head, 16, 4) as usize;
        let data = self.rest.get(HEAD..)?.get(..len)?;
        if number_at(head, 0, 4) != 0x668e_33ef || number_at(head, 8, 8) != self.cookie {
            return None;
        }
        self.rest = self.rest.get(HEAD.saturating_add(len)..)?;
        self.is_done = number_at(head, 4, 2) == 1;
        Some(Chunk {
            kind: number_at(head, 6, 2),
            data,
        })
    }

    fn take_content(&mut self, word: &str, count: u64, report: &mut Buffer) {
        add_part(report, word, count);
        self.sector = self.sector.saturating_add(count);
    }

    /// Takes a chunk of data or a hole. Returns whether it continues the reply.
    fn take_read(&mut self, chunk: Chunk<'_>, values: &mut Buffer, report: &mut Buffer) -> bool {
        let is_next = number_at(chunk.data, 0, 8) == self.sector.saturating_mul(512);
        if chunk.kind == 1 {
            let content = chunk.data.get(8..).unwrap_or(&[]);
            let have_values = add_values(values, self.sector, content);
            self.take_content("data", content.len() as u64 / 512, report);
            return is_next && have_values;
        }
        let count = number_at(chunk.data, 8, 4) / 512;
        if count > MOST_IN_HOLE {
            return false;
        }
        zero_values(values, count);
        self.take_content("hole", count, report);
        is_next
    }

    /// Takes a chunk. Returns whether it may follow the ones before.
    fn take(&mut self, chunk: Chunk<'_>, values: &mut Buffer, report: &mut Buffer) -> bool {
        match chunk.kind {
            0 => chunk.data.is_empty(),
            1 | 2 => self.take_read(chunk, values, report),
            5 => {
                report_extents(report, chunk.data);
                true
            }
            _ => {
                self.error = Some(u32::try_from(number_at(chunk.data, 0, 4)).unwrap_or(u32::MAX));
                true
            }
        }
    }

    /// Takes all chunks, at most 100,000. Returns whether they make a reply.
    fn take_all(&mut self, values: &mut Buffer, report: &mut Buffer) -> bool {
        for _ in 0..100_000 {
            if self.is_done {
                break;
            }
            let Some(chunk) = self.next_chunk() else {
                return false;
            };
            if !self.take(chunk, values, report) {
                return false;
            }
        }
        self.is_done && self.rest.is_empty()
    }
}

/// Reads a reply in chunks. Reports the sectors of each chunk, and adds the values of all sectors.
pub(crate) fn structured_reply(
    out: &Answers,
    request: &Request,
    cookie: u64,
    values: &mut Buffer,
    report: &mut Buffer,
) -> Answer {
    if let Some(failure) = failure_in(out) {
        return failure;
    }
    let mut reply = Reply {
        rest: out.bytes(),
        cookie,
        sector: request.sector,
        is_done: false,
        error: None,
    };
    if !reply.take_all(values, report) {
        return Answer::Strange;
    }
    if let Some(error) = reply.error {
        return Answer::Error(error);
    }
    let is_read = matches!(request.operation, Operation::Read { .. });
    if is_read && reply.sector != request.sector.saturating_add(request.count) {
        return Answer::Strange;
    }
    Answer::Reported
}
