//! Reads calls of clients.

use crate::line::{ClientCall, ExportName, Offer};
use crate::parse_calls::request;
use crate::text::{Words, number_of};

/// Reads an export's name: a volume's number, `empty`, or another text.
fn export_name<'a>(words: &mut Words<'a>) -> ExportName<'a> {
    let word = words.next_word();
    match number_of(word) {
        Some(number) => {
            words.refuse_unless(number <= u32::MAX as u64);
            ExportName::Volume(u32::try_from(number).unwrap_or(0))
        }
        None if word == b"empty".as_slice() => ExportName::Text(b""),
        None => ExportName::Text(word),
    }
}

/// Reads the volume of the empty name, if there is one.
fn clones(words: &mut Words<'_>) -> Offer {
    if words.is_empty() {
        Offer::Clones(None)
    } else {
        Offer::Clones(Some(words.id()))
    }
}

fn offer(words: &mut Words<'_>) -> Offer {
    match words.next_name() {
        "" | "strict" => Offer::Strict,
        "extended" => Offer::Extended,
        "through" => Offer::Through,
        "default" => Offer::Default(words.id()),
        "clones" => clones(words),
        _ => {
            words.refuse();
            Offer::Strict
        }
    }
}

fn request_call<'a>(word: &str, words: &mut Words<'a>) -> ClientCall<'a> {
    match word {
        "half" => {
            let operation = words.next_name();
            ClientCall::HalfOf(request(operation, 0, words))
        }
        "begin" => {
            let operation = words.next_name();
            ClientCall::Begin(request(operation, 0, words))
        }
        "read-shared" => ClientCall::ReadShared(request("read", 0, words)),
        "rest" => ClientCall::RestOfRequest,
        "next-part" => ClientCall::NextPart,
        "flush" => ClientCall::Flush,
        "disc" => ClientCall::Disconnect,
        "hang-up" => ClientCall::HangUp,
        "send" => ClientCall::Send(words.all()),
        _ => ClientCall::Request(request(word, 0, words)),
    }
}

/// Reads a call of a client, from the word after the client's number on.
pub(crate) fn client_call<'a>(words: &mut Words<'a>) -> ClientCall<'a> {
    let word = words.next_name();
    match word {
        "connect" => ClientCall::Connect(offer(words)),
        "go" => ClientCall::Go(export_name(words)),
        "export-name" => ClientCall::ExportName(export_name(words)),
        "info" => ClientCall::Info(export_name(words)),
        "list" => ClientCall::List,
        "abort" => ClientCall::Abort,
        "structured" => ClientCall::StructuredReply,
        "contexts" => ClientCall::SetContexts(words.all()),
        "list-contexts" => ClientCall::ListContexts(words.all()),
        _ => request_call(word, words),
    }
}
