//! Events of the server: one at a time, each answered completely.

ghost use Rattle.std.specs.Prelude.{◌<◌};

use crate::idle::MemServed;
use nbd_session::Profile;
use std::alloc::{AllocError, Global};
use tp_hub::{Answers, Event, Hub, Mark};
use tp_model::{DevId, Refusal};
use tp_script::{
    Answer, Buffer, ClientCall, ExportName, Offer, add_contexts, add_head, add_info_option,
    add_option, add_request, add_spelled,
};

/// The least number of a clone. A connection with clones names no such volume.
pub(crate) const FIRST_CLONE: u32 = 8_388_608;

/// The most connections.
pub(crate) const CONNECTIONS: usize = 64;

/// A connection as its client sees it.
#[derive(Clone, Copy)]
pub(crate) struct Connection {
    pub is_open: bool,
    pub offer: Offer,
    /// Whether the client flags are sent.
    pub has_flags: bool,
    /// Whether READs are answered in chunks.
    pub has_chunks: bool,
    /// The volume that the client opened, and the older one that it compares with.
    pub volume: Option<u32>,
    pub older: Option<u32>,
    /// The request of which it has sent half, or of which parts are left.
    pub pending: Option<tp_script::Request>,
    /// The cookie of the request that it began last.
    pub cookie: u64,
}

impl Connection {
    pub(crate) fn is_extended(&self) -> bool {
        self.offer != Offer::Strict
    }

    /// Returns whether the answer of a request makes everything durable.
    pub(crate) fn commits(&self, request: &tp_script::Request) -> bool {
        let is_through = self.offer == Offer::Through && !request.operation.only_reads();
        is_through || request.operation.has_fua()
    }

    /// Returns whether a volume with this number has a name for the client.
    pub(crate) fn names(&self, id: u32) -> bool {
        !matches!(self.offer, Offer::Clones(_)) || id < FIRST_CLONE
    }

    /// Returns a connection that the server has greeted.
    pub(crate) fn opened(offer: Offer) -> Connection {
        Connection {
            is_open: true,
            offer,
            ..Connection::CLOSED
        }
    }

    pub(crate) const CLOSED: Connection = Connection {
        is_open: false,
        offer: Offer::Strict,
        has_flags: false,
        has_chunks: false,
        volume: None,
        older: None,
        pending: None,
        cookie: 0,
    };
}

fn session_of(number: u8) -> u8
    ensures { result < 64 }
{
    number % 64
}

fn profile_of(offer: Offer) -> Profile {
    match offer {
        Offer::Strict => Profile::Strict,
        Offer::Extended => Profile::Extended,
        Offer::Through => Profile::Extended.writing_through(),
        Offer::Default(volume) => Profile::extended(Some(DevId::new(volume % 16_777_216))),
        Offer::Clones(None) => Profile::cloning(None),
        Offer::Clones(Some(volume)) => Profile::cloning(Some(DevId::new(volume % 16_777_216))),
    }
}

/// Connects a client. Returns whether there was memory for it.
pub(crate) fn connect(
    alloc: Global,
    server: &mut Hub<MemServed>,
    number: u8,
    offer: Offer,
    out: &mut Answers,
) -> bool {
    out.clear();
    let event = Event::Open(session_of(number), profile_of(offer));
    server.run(alloc, &[event], out).events > 0
}

/// The server receives bytes of a client, and once more what it left of them since it was refused
/// memory. Returns whether it was.
pub(crate) fn receive(
    alloc: Global,
    server: &mut Hub<MemServed>,
    number: u8,
    bytes: &[u8],
    out: &mut Answers,
) -> bool {
    out.clear();
    let session = session_of(number);
    let ran = server.run(alloc, &[Event::Bytes(session, bytes)], out);
    if ran.events > 0 {
        return false;
    }
    let rest = bytes.get(ran.bytes..).unwrap_or(&[]);
    server.run(alloc, &[Event::Bytes(session, rest)], out);
    true
}

/// Performs one part of a request, or all that comes before its first part.
pub(crate) fn receive_part(
    alloc: Global,
    server: &mut Hub<MemServed>,
    number: u8,
    bytes: &[u8],
    out: &mut Answers,
) {
    out.clear();
    server.run(alloc, &[Event::Parted(session_of(number), bytes)], out);
}

/// Returns whether parts of a request are left, and whether only its flush is left.
pub(crate) fn parts_left(server: &Hub<MemServed>, number: u8) -> (bool, bool) {
    let session = session_of(number);
    (server.is_at_work(session), server.is_to_flush(session))
}

/// Answers a READ from memory. Returns whether it was answered.
pub(crate) fn receive_shared(
    server: &Hub<MemServed>,
    number: u8,
    bytes: &[u8],
    out: &mut Answers,
) -> bool {
    out.clear();
    server.ask_shared(session_of(number), bytes, out).is_some()
}

/// A client closes its connection. Returns whether there was memory for the answer.
pub(crate) fn hang_up(
    alloc: Global,
    server: &mut Hub<MemServed>,
    number: u8,
    out: &mut Answers,
) -> bool {
    out.clear();
    let event = Event::Hangup(session_of(number));
    server.run(alloc, &[event], out).events > 0
}

fn run_line(alloc: Global, server: &mut Hub<MemServed>, event: Event<'_>, out: &mut Answers) {
    match event {
        Event::Message(line) => server.run(alloc, &[Event::Message(line)], out),
        Event::Status => server.run(alloc, &[Event::Status], out),
        Event::ThinStatus(id) => server.run(alloc, &[Event::ThinStatus(id)], out),
        Event::Size(id) => server.run(alloc, &[Event::Size(id)], out),
        Event::Map(id, from) => server.run(alloc, &[Event::Map(id, from)], out),
        Event::Delta(one, other, from) => server.run(alloc, &[Event::Delta(one, other, from)], out),
        _ => server.run(alloc, &[Event::Flush], out),
    };
}

/// Handles an event of a control line.
pub(crate) fn handle(
    alloc: Global,
    server: &mut Hub<MemServed>,
    event: Event<'_>,
    out: &mut Answers,
) -> Answer {
    out.clear();
    run_line(alloc, server, event, out);
    match out.marks() {
        [Mark::Done] => Answer::Done,
        [Mark::Refused { reason }] => Answer::Failed(*reason),
        [Mark::Line { .. }] => Answer::Reported,
        [] => Answer::Failed(Refusal::Memory),
        _ => Answer::Strange,
    }
}

fn name_of(alloc: Global, name: ExportName<'_>) -> Buffer {
    let mut text = Buffer::new(alloc);
    match name {
        ExportName::Volume(id) => text.add_number(id as u64),
        ExportName::Text(name) => text.add(name),
    }
    text
}

/// Adds an option that names an export, if a call is one.
fn add_named_option(out: &mut Buffer, call: ClientCall<'_>) {
    let (option, name) = match call {
        ClientCall::ExportName(name) => (1, name),
        ClientCall::Info(name) => (6, name),
        ClientCall::Go(name) => (7, name),
        _ => return,
    };
    let name = name_of(out.alloc(), name);
    if !name.is_whole() {
        out.add_text(Err(AllocError));
    } else if option == 1 {
        add_option(out, option, name.as_slice());
    } else {
        add_info_option(out, option, name.as_slice());
    }
}

/// Adds the bytes that a client sends for a call.
pub(crate) fn add_sent(out: &mut Buffer, call: ClientCall<'_>, cookie: u64) {
    match call {
        ClientCall::Abort => add_option(out, 2, b""),
        ClientCall::List => add_option(out, 3, b""),
        ClientCall::StructuredReply => add_option(out, 8, b""),
        ClientCall::ListContexts(names) => add_contexts(out, 9, names),
        ClientCall::SetContexts(names) => add_contexts(out, 10, names),
        ClientCall::Disconnect => add_head(out, (0, 2), cookie, 0, 0),
        ClientCall::Flush => add_head(out, (0, 3), cookie, 0, 0),
        ClientCall::Send(text) => add_spelled(out, text),
        ClientCall::Request(request)
        | ClientCall::HalfOf(request)
        | ClientCall::Begin(request)
        | ClientCall::ReadShared(request) => add_request(out, &request, cookie),
        _ => add_named_option(out, call),
    }
}
