//! Lines of clients on connections and options.

use crate::replies::{
    export_reply, greeting_reply, info_reply, names_reply, option_reply, raw_reply,
};
use crate::server::{Connection, connect, hang_up};
use crate::stage::Stage;
use crate::world::World;
use tp_model::Refusal;
use tp_script::{Answer, ClientCall, ExportName, Offer, cut_at, number_of};

/// ERR_UNKNOWN, the reply for an export that does not exist.
const UNKNOWN: u32 = 0x8000_0006;

/// Returns the older volume that a list of contexts names.
fn older_in(contexts: &[u8]) -> Option<u32> {
    let mut rest = contexts;
    for _ in 0..contexts.len() {
        let (context, after) = cut_at(rest, b' ');
        if let Some(id) = context.strip_prefix(b"thinpool:since:".as_slice()) {
            return u32::try_from(number_of(id)?).ok();
        }
        rest = after?;
    }
    None
}

impl World {
    fn connect(&mut self, number: u8, offer: Offer) -> Answer {
        let Stage::Server(server) = &mut self.stage else {
            return Answer::Misplaced;
        };
        if !connect(self.alloc, server, number, offer, &mut self.out) {
            return Answer::Failed(Refusal::Memory);
        }
        let answer = greeting_reply(&self.out);
        if answer == Answer::Done {
            *self.connection_mut(number) = Connection::opened(offer);
        }
        answer
    }

    /// Connects a client that is not connected.
    fn ensure_connected(&mut self, number: u8, offer: Offer) -> Answer {
        if self.connection(number).is_open {
            Answer::Done
        } else {
            self.connect(number, offer)
        }
    }

    /// Sends a call of a client, which is connected first. Returns `Done` if the server received
    /// it.
    fn send_option(&mut self, number: u8, offer: Offer, call: ClientCall<'_>) -> Answer {
        let connected = self.ensure_connected(number, offer);
        if connected != Answer::Done {
            return connected;
        }
        let bytes = self.bytes_of(number, call);
        self.report.clear();
        if self.deliver(number, &bytes) {
            Answer::Done
        } else {
            Answer::Misplaced
        }
    }

    fn hang_up(&mut self, number: u8) -> Answer {
        let Stage::Server(server) = &mut self.stage else {
            return Answer::Misplaced;
        };
        if !hang_up(self.alloc, server, number, &mut self.out) {
            return Answer::Failed(Refusal::Memory);
        }
        let answer = raw_reply(&self.out, &mut self.report);
        let expected = if self.connection(number).is_open {
            Answer::Closed
        } else {
            Answer::Failed(Refusal::NoSession)
        };
        self.compare_answer(answer, expected);
        self.forget(number);
        answer
    }

    fn open_volume(&mut self, id: Option<u32>) {
        let opened = match (id, self.reference_mut()) {
            (Some(id), Some(reference)) => reference.open_volume(id).is_ok(),
            _ => true,
        };
        self.note_memory(opened);
    }

    /// A client selected contexts, and with them an older volume or none, which is open from now
    /// on.
    fn take_older(&mut self, number: u8) {
        let older = older_in(self.report.as_slice());
        let before = self.connection(number).older;
        self.close_volume(before);
        self.open_volume(older);
        self.connection_mut(number).older = older;
    }

    /// Returns the answer that the reference model requires of INFO, GO or EXPORT_NAME of a volume.
    fn expected_export(&self, number: u8, id: u32, call: ClientCall<'_>) -> Option<Answer> {
        let reference = self.reference()?;
        if self.has_failed {
            return Some(Answer::Closed);
        }
        if reference.has(id) && self.connection(number).names(id) {
            return Some(Answer::Reported);
        }
        Some(match call {
            ClientCall::ExportName(_) => Answer::Closed,
            _ => Answer::Option(UNKNOWN),
        })
    }

    /// A client opened a volume.
    fn take_open(&mut self, number: u8, id: u32) {
        self.open_volume(Some(id));
        self.connection_mut(number).volume = Some(id);
    }

    /// Returns whether the last option reported the size of this volume.
    fn reports_size_of(&self, id: u32) -> bool {
        let Some(reference) = self.reference() else {
            return true;
        };
        let size = reference.sectors(id).saturating_mul(512);
        let reported = self.report.as_slice().strip_prefix(b"size ".as_slice());
        let (reported, _) = cut_at(reported.unwrap_or(&[]), b' ');
        number_of(reported) == Some(size)
    }

    /// Notes an option in which the disk failed. Returns whether it did.
    fn takes_fault_of_option(&mut self, answer: Answer) -> bool {
        let is_fault = answer == Answer::Closed && self.is_failing();
        if is_fault {
            self.faults.options = self.faults.options.saturating_add(1);
        }
        is_fault
    }

    /// A client's INFO, GO or EXPORT_NAME of a volume succeeded, as it must.
    fn take_export(&mut self, number: u8, id: u32, call: ClientCall<'_>) {
        if !self.reports_size_of(id) {
            self.require(Answer::Reported, b"another size");
        }
        if !matches!(call, ClientCall::Info(_)) {
            self.take_open(number, id);
        }
    }

    /// Compares the answer to an option that names a volume. Returns whether the disk failed in it.
    fn compare_export(
        &mut self,
        number: u8,
        id: u32,
        answer: Answer,
        call: ClientCall<'_>,
    ) -> bool {
        let expected = self.expected_export(number, id, call).unwrap_or(answer);
        if answer != expected {
            if self.takes_fault_of_option(answer) {
                return true;
            }
            self.require(expected, b"another export");
        } else if answer == Answer::Reported {
            self.take_export(number, id, call);
        }
        false
    }

    /// Reads the reply to INFO, GO or EXPORT_NAME.
    fn read_export(&mut self, call: ClientCall<'_>) -> Answer {
        match call {
            ClientCall::ExportName(_) => export_reply(&self.out, &mut self.report),
            ClientCall::Info(_) => info_reply(&self.out, 6, &mut self.report),
            _ => info_reply(&self.out, 7, &mut self.report),
        }
    }

    /// Sends INFO, GO or EXPORT_NAME. Returns its answer, and whether the disk failed in it.
    fn ask_export(
        &mut self,
        number: u8,
        name: ExportName<'_>,
        call: ClientCall<'_>,
    ) -> (Answer, bool) {
        let sent = self.send_option(number, Offer::Strict, call);
        if sent != Answer::Done {
            return (sent, false);
        }
        let answer = self.read_export(call);
        let has_failed = match name {
            ExportName::Volume(id) => self.compare_export(number, id, answer, call),
            ExportName::Text(_) => false,
        };
        self.forget_if(number, answer);
        (answer, has_failed)
    }

    /// Sends INFO, GO or EXPORT_NAME; once more if the disk failed in it in a matrix.
    fn play_export(&mut self, number: u8, name: ExportName<'_>, call: ClientCall<'_>) -> Answer {
        let (answer, has_failed) = self.ask_export(number, name, call);
        if has_failed && self.is_in_matrix {
            return self.ask_export(number, name, call).0;
        }
        answer
    }

    /// Compares the names that LIST reports. Returns whether the disk failed in it.
    fn compare_list(&mut self, number: u8, answer: Answer) -> bool {
        let offer = self.connection(number).offer;
        let list = match self.reference() {
            Some(reference) if !matches!(offer, Offer::Clones(_)) => reference.volume_numbers(),
            _ => return false,
        };
        if answer == Answer::Closed && self.has_failed {
            return false;
        }
        if self.takes_fault_of_option(answer) {
            return true;
        }
        self.compare_text(answer, &list);
        false
    }

    /// Sends LIST. Returns its answer, and whether the disk failed in it.
    fn ask_list(&mut self, number: u8) -> (Answer, bool) {
        let sent = self.send_option(number, Offer::Strict, ClientCall::List);
        if sent != Answer::Done {
            return (sent, false);
        }
        let answer = names_reply(&self.out, 3, &mut self.report);
        let has_failed = self.compare_list(number, answer);
        self.forget_if(number, answer);
        (answer, has_failed)
    }

    /// Sends LIST; once more if the disk failed in it in a matrix.
    fn play_list(&mut self, number: u8) -> Answer {
        let (answer, has_failed) = self.ask_list(number);
        if has_failed && self.is_in_matrix {
            return self.ask_list(number).0;
        }
        answer
    }

    fn play_abort(&mut self, number: u8) -> Answer {
        let connected = self.ensure_connected(number, Offer::Strict);
        if connected != Answer::Done {
            return connected;
        }
        let bytes = self.bytes_of(number, ClientCall::Abort);
        self.play_raw(number, &bytes)
    }

    fn play_structured(&mut self, number: u8) -> Answer {
        let sent = self.send_option(number, Offer::Extended, ClientCall::StructuredReply);
        if sent != Answer::Done {
            return sent;
        }
        let answer = option_reply(&self.out, 8);
        if answer == Answer::Done {
            self.connection_mut(number).has_chunks = true;
        }
        self.forget_if(number, answer);
        answer
    }

    /// Sends LIST_META_CONTEXT (9) or SET_META_CONTEXT (10) of an extended client.
    fn play_contexts(&mut self, number: u8, option: u32, call: ClientCall<'_>) -> Answer {
        let sent = self.send_option(number, Offer::Extended, call);
        if sent != Answer::Done {
            return sent;
        }
        let answer = names_reply(&self.out, option, &mut self.report);
        if option == 10 && answer == Answer::Reported {
            self.take_older(number);
        }
        self.forget_if(number, answer);
        answer
    }

    fn least_volume(&self) -> Option<u32> {
        Some(self.reference()?.volumes().first()?.id())
    }

    /// Returns the name of the least volume for the name `least`.
    fn least_if_named<'a>(&self, name: ExportName<'a>) -> ExportName<'a> {
        match (name, self.least_volume()) {
            (ExportName::Text(text), Some(id)) if text == b"least".as_slice() => {
                ExportName::Volume(id)
            }
            _ => name,
        }
    }

    pub(crate) fn play_client_option(&mut self, number: u8, call: ClientCall<'_>) -> Answer {
        match call {
            ClientCall::Connect(offer) => self.connect(number, offer),
            ClientCall::HangUp => self.hang_up(number),
            ClientCall::Go(name) => {
                let name = self.least_if_named(name);
                self.play_export(number, name, ClientCall::Go(name))
            }
            ClientCall::ExportName(name) | ClientCall::Info(name) => {
                self.play_export(number, name, call)
            }
            ClientCall::List => self.play_list(number),
            ClientCall::Abort => self.play_abort(number),
            ClientCall::StructuredReply => self.play_structured(number),
            ClientCall::ListContexts(_) => self.play_contexts(number, 9, call),
            ClientCall::SetContexts(_) => self.play_contexts(number, 10, call),
            _ => Answer::Misplaced,
        }
    }
}
