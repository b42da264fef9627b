//! Lines of clients on requests, and what all lines of clients share.

use crate::chunks::structured_reply;
use crate::compare::Source;
use crate::replies::{is_closed, raw_reply, simple_reply};
use crate::server::{
    CONNECTIONS, Connection, add_sent, parts_left, receive, receive_part, receive_shared,
};
use crate::stage::Stage;
use crate::world::World;
use tp_model::Refusal;
use tp_reference::Step;
use tp_script::{
    Answer, Buffer, COOKIE_OF_HALVES, Caller, ClientCall, Operation, Request, add_request,
    add_runs, add_spelled,
};

/// The bytes of a request's head.
const HEAD: usize = 28;

/// The place where a request is cut that is sent in two halves; the first half has its head.
fn middle_of(bytes: &[u8]) -> usize {
    HEAD + bytes.len().saturating_sub(HEAD) / 2
}

impl World {
    pub(crate) fn connection(&self, number: u8) -> Connection {
        self.connections[number as usize % CONNECTIONS]
    }

    pub(crate) fn connection_mut(&mut self, number: u8) -> &mut Connection {
        &mut self.connections[number as usize % CONNECTIONS]
    }

    pub(crate) fn close_volume(&mut self, id: Option<u32>) {
        if let (Some(id), Some(reference)) = (id, self.reference_mut()) {
            reference.close_volume(id);
        }
    }

    /// A connection is closed, and with it the volumes that it had open.
    pub(crate) fn forget(&mut self, number: u8) {
        let connection = self.connection(number);
        self.close_volume(connection.volume);
        self.close_volume(connection.older);
        *self.connection_mut(number) = Connection::CLOSED;
    }

    pub(crate) fn forget_if(&mut self, number: u8, answer: Answer) {
        if answer == Answer::Closed || is_closed(&self.out) {
            self.forget(number);
        }
    }

    /// The server receives bytes of a client.
    pub(crate) fn deliver(&mut self, number: u8, bytes: &Buffer) -> bool {
        let Stage::Server(server) = &mut self.stage else {
            return false;
        };
        self.has_resumed = receive(self.alloc, server, number, bytes.as_slice(), &mut self.out);
        true
    }

    /// The server receives bytes of a client, and handles a request one part at a time. Returns
    /// whether parts are left, and whether only the flush is left.
    fn deliver_part(&mut self, number: u8, bytes: &Buffer) -> (bool, bool) {
        let Stage::Server(server) = &mut self.stage else {
            return (false, false);
        };
        receive_part(self.alloc, server, number, bytes.as_slice(), &mut self.out);
        parts_left(server, number)
    }

    /// Returns the bytes of a call. The client flags precede the first option.
    pub(crate) fn bytes_of(&mut self, number: u8, call: ClientCall<'_>) -> Buffer {
        self.cookie = self.cookie.wrapping_add(1);
        let cookie = self.cookie;
        let mut bytes = Buffer::new(self.alloc);
        let connection = self.connection_mut(number);
        if connection.is_open && !connection.has_flags {
            bytes.add(&[0, 0, 0, 3]);
            connection.has_flags = true;
        }
        add_sent(&mut bytes, call, cookie);
        self.note_memory(bytes.is_whole());
        bytes
    }

    /// Returns a request with the volume that its client opened.
    fn request_by(&self, number: u8, request: &Request) -> Request {
        Request {
            volume: self.connection(number).volume.unwrap_or(u32::MAX),
            ..*request
        }
    }

    /// Reads the reply to a request, and reports its extents and values.
    fn read_reply(&mut self, number: u8, request: &Request, cookie: u64) -> Answer {
        self.values.clear();
        self.report.clear();
        let answer = if self.connection(number).has_chunks && request.operation.only_reads() {
            structured_reply(
                &self.out,
                request,
                cookie,
                &mut self.values,
                &mut self.report,
            )
        } else {
            simple_reply(&self.out, Some(request), cookie, &mut self.values)
        };
        if answer == Answer::Reported && !self.values.is_empty() {
            self.report.separate(b":");
            add_runs(&mut self.report, self.values.as_slice());
        }
        self.forget_if(number, answer);
        answer
    }

    /// Returns the error that the form of a client's request has.
    fn form_error_of(&self, number: u8, request: &Request) -> Option<Answer> {
        let connection = self.connection(number);
        let operation = match request.operation {
            Operation::Read { .. } if connection.has_chunks => Operation::Read { df: false },
            operation => operation,
        };
        let plain = Request {
            operation,
            ..*request
        };
        let error = self
            .reference()?
            .form_error(&plain, connection.is_extended())?;
        Some(Answer::Error(error.code()))
    }

    /// Returns the answer that a client's request has whatever the pool's state is, if it has one.
    fn expected_by_form(&self, number: u8, request: &Request, answer: Answer) -> Option<Answer> {
        let connection = self.connection(number);
        if connection.volume.is_none() {
            return Some(match answer {
                Answer::Closed => answer,
                _ => Answer::Failed(Refusal::NoSession),
            });
        }
        if connection.pending.is_some() {
            return Some(Answer::Failed(Refusal::SessionInUse));
        }
        match request.operation {
            Operation::Status { .. } => Some(answer),
            _ => self.form_error_of(number, request),
        }
    }

    /// Compares the answer of a client's request. Returns whether the disk failed in a read.
    fn compare_request(
        &mut self,
        number: u8,
        request: &Request,
        answer: Answer,
        commits: bool,
    ) -> bool {
        if let Some(expected) = self.expected_by_form(number, request, answer) {
            self.compare_answer(answer, expected);
            return false;
        }
        if let Operation::Read { .. } = request.operation {
            return self.compare_read(Source::Volume, request, answer, Caller::Client);
        }
        self.compare_step(&Step::Request(request), answer, Caller::Client, commits);
        false
    }

    /// Sends a request. Returns its answer, and whether the disk failed in a read.
    fn ask(
        &mut self,
        number: u8,
        request: &Request,
        bytes: &Buffer,
        cookie: u64,
    ) -> (Answer, bool) {
        if !self.deliver(number, bytes) {
            return (Answer::Misplaced, false);
        }
        let answer = self.read_reply(number, request, cookie);
        let commits = self.connection(number).commits(request) && request.count > 0;
        (
            answer,
            self.compare_request(number, request, answer, commits),
        )
    }

    /// Sends a request; a read once more if the disk failed in it in a matrix.
    fn play_client_request(&mut self, number: u8, request: &Request) -> Answer {
        self.take_used_metadata();
        let request = self.request_by(number, request);
        let bytes = self.bytes_of(number, ClientCall::Request(request));
        let cookie = self.cookie;
        let (answer, has_failed) = self.ask(number, &request, &bytes, cookie);
        if has_failed && self.is_in_matrix {
            return self.ask(number, &request, &bytes, cookie).0;
        }
        answer
    }

    /// Returns the first half of a request's bytes, or the rest.
    fn half_of(&self, request: &Request, is_first: bool) -> Buffer {
        let mut bytes = Buffer::new(self.alloc);
        add_request(&mut bytes, request, COOKIE_OF_HALVES);
        let middle = middle_of(bytes.as_slice());
        let mut half = Buffer::new(self.alloc);
        half.add(if is_first {
            bytes.as_slice().get(..middle).unwrap_or(&[])
        } else {
            bytes.as_slice().get(middle..).unwrap_or(&[])
        });
        half
    }

    fn play_half(&mut self, number: u8, request: &Request) -> Answer {
        let request = self.request_by(number, request);
        let first = self.half_of(&request, true);
        if !self.deliver(number, &first) {
            return Answer::Misplaced;
        }
        self.connection_mut(number).pending = Some(request);
        raw_reply(&self.out, &mut self.report)
    }

    fn play_rest(&mut self, number: u8) -> Answer {
        let Some(request) = self.connection(number).pending else {
            return Answer::Misplaced;
        };
        self.connection_mut(number).pending = None;
        let rest = self.half_of(&request, false);
        self.ask(number, &request, &rest, COOKIE_OF_HALVES).0
    }

    /// Returns the answer of a request of which something is left: nothing may be sent before that.
    fn say_left(&mut self, left: &[u8]) -> Answer {
        if !self.out.marks().is_empty() {
            return Answer::Strange;
        }
        self.say(left)
    }

    /// Sends a request that is served one part at a time. Reports `parts left`, `flush left`, or
    /// the reply. If only the flush is left, the change is made; otherwise the reference model
    /// makes it when the request is answered.
    fn play_begin(&mut self, number: u8, request: &Request) -> Answer {
        let request = self.request_by(number, request);
        let bytes = self.bytes_of(number, ClientCall::Begin(request));
        let cookie = self.cookie;
        self.connection_mut(number).cookie = cookie;
        match self.deliver_part(number, &bytes) {
            (_, true) => {
                let step = Step::Request(&request);
                self.compare_step(&step, Answer::Done, Caller::Client, false);
                self.connection_mut(number).pending = None;
                self.say_left(b"flush left")
            }
            (true, false) => {
                self.connection_mut(number).pending = Some(request);
                self.say_left(b"parts left")
            }
            _ => self.end_parts(number, &request),
        }
    }

    /// Reads the reply to a request whose parts are all made.
    fn end_parts(&mut self, number: u8, request: &Request) -> Answer {
        let cookie = self.connection(number).cookie;
        let answer = self.read_reply(number, request, cookie);
        let commits = self.connection(number).commits(request);
        self.compare_request(number, request, answer, commits);
        answer
    }

    /// Makes the next part of the request that the client began last.
    fn play_next_part(&mut self, number: u8) -> Answer {
        let nothing = Buffer::new(self.alloc);
        let left = self.deliver_part(number, &nothing);
        if left.0 || left.1 {
            return self.say_left(b"parts left");
        }
        let connection = self.connection(number);
        if let Some(request) = connection.pending {
            self.connection_mut(number).pending = None;
            return self.end_parts(number, &request);
        }
        let answer = simple_reply(&self.out, None, connection.cookie, &mut self.values);
        self.compare_step(&Step::Flush, answer, Caller::Client, true);
        answer
    }

    /// Sends a READ that is answered from memory: reports its values, or `nothing`.
    fn play_shared(&mut self, number: u8, request: &Request) -> Answer {
        let request = self.request_by(number, request);
        let bytes = self.bytes_of(number, ClientCall::ReadShared(request));
        let Stage::Server(server) = &self.stage else {
            return Answer::Misplaced;
        };
        if !receive_shared(server, number, bytes.as_slice(), &mut self.out) {
            return self.say(b"nothing");
        }
        let answer = self.read_reply(number, &request, self.cookie);
        self.compare_request(number, &request, answer, false);
        answer
    }

    fn play_client_flush(&mut self, number: u8) -> Answer {
        let bytes = self.bytes_of(number, ClientCall::Flush);
        if !self.deliver(number, &bytes) {
            return Answer::Misplaced;
        }
        let answer = simple_reply(&self.out, None, self.cookie, &mut self.values);
        if self.connection(number).volume.is_some() {
            self.compare_step(&Step::Flush, answer, Caller::Client, true);
        } else {
            self.compare_answer(answer, Answer::Failed(Refusal::NoSession));
        }
        answer
    }

    /// Sends bytes that a text spells, and reports all bytes of the reply.
    fn play_bytes(&mut self, number: u8, text: &[u8]) -> Answer {
        let mut bytes = Buffer::new(self.alloc);
        add_spelled(&mut bytes, text);
        self.note_memory(bytes.is_whole());
        self.play_raw(number, &bytes)
    }

    pub(crate) fn play_raw(&mut self, number: u8, bytes: &Buffer) -> Answer {
        if !self.deliver(number, bytes) {
            return Answer::Misplaced;
        }
        let answer = raw_reply(&self.out, &mut self.report);
        self.forget_if(number, answer);
        answer
    }

    /// Plays a line of a client. The first one puts a server over the pool.
    pub(crate) fn play_client(&mut self, number: u8, call: ClientCall<'_>) -> Answer {
        if !self.start_server() {
            return Answer::Misplaced;
        }
        match call {
            ClientCall::Request(request) => self.play_client_request(number, &request),
            ClientCall::HalfOf(request) => self.play_half(number, &request),
            ClientCall::RestOfRequest => self.play_rest(number),
            ClientCall::Begin(request) => self.play_begin(number, &request),
            ClientCall::NextPart => self.play_next_part(number),
            ClientCall::ReadShared(request) => self.play_shared(number, &request),
            ClientCall::Flush => self.play_client_flush(number),
            ClientCall::Send(text) => self.play_bytes(number, text),
            ClientCall::Disconnect => {
                let bytes = self.bytes_of(number, call);
                self.play_raw(number, &bytes)
            }
            _ => self.play_client_option(number, call),
        }
    }
}
