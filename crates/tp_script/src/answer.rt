//! The result of a line.

use crate::buffer::Buffer;
use crate::text::cut_at;
use tp_model::Refusal;

/// The result of a line.
#[derive(Clone, Copy, PartialEq, Eq)]
pub enum Answer {
    /// The call succeeded and reports nothing.
    Done,
    /// The call succeeded and reported a text.
    Reported,
    /// A call of the pool failed, or an event of the server.
    Failed(Refusal),
    /// A request of a client was answered with this error of NBD.
    Error(u32),
    /// An option was answered with a reply of this type.
    Option(u32),
    /// The server closed the connection.
    Closed,
    /// Bytes or values that no call may give.
    Strange,
    /// The line does not fit here: for example, `read` without a pool.
    Misplaced,
}

/// The side that makes a call, which decides how its failure is spelled.
#[derive(Clone, Copy, PartialEq, Eq)]
pub enum Caller {
    /// A call of the pool, which fails with a refusal.
    Pool,
    /// A request of a client, which fails with an error of NBD.
    Client,
}

/// Returns the answer of a call that reports nothing.
pub fn answer_of(outcome: Result<(), Refusal>, caller: Caller) -> Answer {
    match outcome {
        Ok(()) => Answer::Done,
        Err(reason) => match caller {
            Caller::Pool => Answer::Failed(reason),
            Caller::Client => Answer::Error(reason.nbd_error().code()),
        },
    }
}

/// Adds the name of a refusal, which follows its number where it is displayed.
fn add_refusal(out: &mut Buffer, refusal: Refusal) {
    match format!(in out.alloc(); "{refusal}") {
        Ok(text) => out.add(cut_at(text.as_bytes(), b' ').1.unwrap_or(b"")),
        Err(error) => out.add_text(Err(error)),
    }
}

fn option_word(reply: u32) -> &'static [u8] {
    match reply {
        0x8000_0001 => b"unsupported",
        0x8000_0002 => b"policy",
        0x8000_0003 => b"invalid",
        0x8000_0006 => b"unknown",
        _ => b"another reply",
    }
}

/// Adds the spelling of an answer. `reported`: the text that the call reported.
pub fn add_answer(out: &mut Buffer, answer: Answer, reported: &[u8]) {
    match answer {
        Answer::Done => out.add(b"ok"),
        Answer::Reported => out.add(reported),
        Answer::Failed(refusal) => add_refusal(out, refusal),
        Answer::Error(error) => {
            out.add(b"error ");
            out.add_number(error as u64);
        }
        Answer::Option(reply) => out.add(option_word(reply)),
        Answer::Closed => out.add(b"closed"),
        Answer::Strange => out.add(b"strange"),
        Answer::Misplaced => out.add(b"misplaced"),
    }
}
