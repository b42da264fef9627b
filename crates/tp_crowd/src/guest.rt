//! A client of those who serve without end: its stream, which ends when it is told to, and what is seen of its visit.

ghost use Rattle.std.specs.Prelude.{◌≡◌, ◌<◌, ◌++◌, [], ◌∷◌, false, length, IsTrue};
ghost use Rattle.tp_hub.specs.Streams.{GivesSome, read_call};
ghost use Rattle.tp_crowd.specs.Guests.{but_end, but_ends};

use crate::chronicle::{Chronicle, Visit};
use crate::noticing::{Answer, Unanswered, name_in, noticed};
use crate::sockets::Socket;
use std::sync::Wait;
use std::sync::atomic::{AtomicBool, Ordering};
use std::thread::Threads;
use std::time::{Clock, Duration};
use tp_hub::{Answers, Desk, Event, Log, Made, Put, Ran, Received, Seat, Stream};
use tp_lock::{LockedDesk, Start};
use tp_model::{DevId, Staged};
use tp_msg::Managed;

/// Seconds for which input of a client is discarded when the server is told to stop: as long as it
/// may take its answers.
const LAST_SECONDS: u64 = 5;

/// A [`Socket`] that is at its end once a flag is set: no more is read of it then. All else that is told of it is what the socket told, in order: what was read, and so is answered, and
/// what of the answers was written.
pub(crate) struct Guest<'c, R: Threads> {
    log: Log,
    socket: Socket<'c, R>,
    is_over: &'c AtomicBool,
    received: u64,
    sent: u64,
    ghost told: { but_ends log.calls ≡ but_ends socket.log.calls },
}

impl<'c, R: Threads> Guest<'c, R> {
    /// No call of it was made yet.
    pub(crate) fn new(socket: Socket<'c, R>, is_over: &'c AtomicBool) -> Guest<'c, R>
        requires { socket.log.calls ≡ [] }
        ensures { result.log.calls ≡ [] }
    {
        Guest {
            log: Log::new(),
            socket,
            is_over,
            received: 0,
            sent: 0,
        }
    }

    /// What became of it so far, where it had this volume.
    pub(crate) fn visit(&self, volume: Option<DevId>) -> Visit {
        Visit {
            volume,
            requests: self.socket.requests(),
            received: self.received,
            sent: self.sent,
        }
    }
}

impl<'c, R: Threads + Clock> Guest<'c, R> {
    /// Ends it as [`Socket::close`] does. If the server is told to stop, its client has five seconds
    /// for the answers.
    pub(crate) fn close(self) {
        let Guest {
            log: _,
            socket,
            is_over,
            received: _,
            sent: _,
        } = self;
        if is_over.load(Ordering::SeqCst) {
            socket.close_within(Duration::from_secs(LAST_SECONDS));
        } else {
            socket.close();
        }
    }
}

/// Reads, unless it is over.
fn read_unless<R: Threads>(
    socket: &mut Socket<'_, R>,
    is_over: bool,
    buffer: &mut Vec<u8>,
) -> Received
    requires { 0 < length buffer.old.items }
    ensures some { GivesSome result (length buffer.new.items) }
    ensures len { length buffer.new.items ≡ length buffer.old.items }
    ensures told { but_ends socket.new.log.calls ≡ but_ends socket.old.log.calls ++ but_end (read_call result buffer.new.items) }
    ensures reads { is_over ≡ false → socket.new.log.calls ≡ socket.old.log.calls ++ read_call result buffer.new.items ∷ [] }
    ensures ends { IsTrue is_over → (result ≡ Received.End) × (socket.new.log.calls ≡ socket.old.log.calls) }
{
    if is_over {
        return Received::End;
    }
    socket.receive(buffer)
}

/// How many bytes a read brought.
fn received_by(received: Received) -> u64 {
    match received {
        Received::Got(count) => count as u64,
        _ => 0,
    }
}

/// How many bytes a write took.
fn taken_by(put: Put) -> u64 {
    match put {
        Put::Wrote(count) => count as u64,
        _ => 0,
    }
}

impl<'c, R: Threads> Stream for Guest<'c, R> {
    ghost calls = { λ guest. guest.log.calls };

    fn receive(&mut self, buffer: &mut Vec<u8>) -> Received {
        let is_over = self.is_over.load(Ordering::SeqCst);
        let received = read_unless(&mut self.socket, is_over, buffer);
        self.received = self.received.saturating_add(received_by(received));
        self.log.note(&Made::Read(received), buffer.as_slice());
        received
    }

    fn send(&mut self, bytes: &[u8]) -> Put {
        let put = self.socket.send(bytes);
        self.sent = self.sent.saturating_add(taken_by(put));
        self.log.note(&Made::Written(put), bytes);
        put
    }

    fn flush(&mut self) -> bool {
        let done = self.socket.flush();
        self.log.note(&Made::Flushed(done), &[]);
        done
    }
}

/// A desk for one client that sees which volume it has.
#[derive(Drop)]
pub(crate) struct GuestDesk<'m, R: Wait, V: Staged, A: Chronicle<V>, K: Start<V>> {
    pub(crate) desk: LockedDesk<'m, R, V, A, K>,
    /// The number of its session.
    pub(crate) number: u8,
    pub(crate) volume: Option<DevId>,
    /// What it sent since it was answered last, before it had a volume.
    pub(crate) unanswered: Unanswered,
    pub(crate) ghost inside: { number < 64 },
}

/// What a client sent that is asked, or nothing of another event.
fn sent_by<'a>(event: &Event<'a>) -> &'a [u8] {
    match event {
        Event::Bytes(_, piece) => piece,
        Event::Parted(_, piece) => piece,
        _ => &[],
    }
}

/// Tells what a client was answered that is logged.
fn tell_answers<V, A: Chronicle<V>>(chronicle: &A, number: u8, sent: &[u8], out: &Answers) {
    match noticed(out) {
        None => {}
        Some(Answer::NoSpace) => chronicle.no_space(number),
        Some(Answer::NoVolume) => chronicle.no_volume(number, name_in(sent).unwrap_or(&[])),
    }
}

/// The volume that the session of this number has, if it has one.
fn volume_of<R: Wait, V: Staged, A: Chronicle<V>, K: Start<V>>(
    desk: &LockedDesk<'_, R, V, A, K>,
    number: u8,
) -> Option<DevId>
    requires { number < 64 }
{
    match desk.hub.seat(desk.rt, number) {
        Seat::Holds(volume) => Some(volume),
        Seat::Free | Seat::Waits => None,
    }
}

impl<'m, R, V, A, K> Desk for GuestDesk<'m, R, V, A, K>
where
    R: Wait,
    V: Managed + Staged,
    A: Chronicle<V>,
    K: Start<V>,
{
    ghost use Rattle.tp_lock.specs.Locked.{SomeRuns};

    ghost asks = { λ a took answers b. SomeRuns V.view took answers };

    fn ask(&mut self, event: Event<'_>, out: &mut Answers) -> Ran {
        if self.volume.is_none() {
            self.unanswered.add(sent_by(&event));
        }
        let ran = self.desk.ask(event, out);
        if self.volume.is_none() {
            self.volume = volume_of(&self.desk, self.number);
        }
        if !out.marks().is_empty() {
            tell_answers(
                self.desk.hub.alarm(),
                self.number,
                self.unanswered.bytes(),
                out,
            );
            self.unanswered.clear();
        }
        ran
    }
}
