//! Control clients of those who serve without end: lines to the pool, and commands to those who serve.

ghost use Rattle.std.specs.Prelude.{◌≡◌, ◌<◌, ◌∷◌, [], None, Some};
ghost use Rattle.tp_hub.specs.Runs.{AsksFlush, Orders, incoming, session_of};
ghost use Rattle.tp_hub.specs.Told.{Accepts, HasRoom};
ghost use Rattle.tp_hub.specs.Desks.{IsAsked};
ghost use Rattle.tp_lock.specs.Locked.{SomeRuns};
ghost use Rattle.tp_crowd.specs.Ruling.{AnswersRulers, IsCommand, IsRuled, IsToldHow, IsToldOf, Obeys, TellsHow, TellsSo, TellsWho};

use crate::chronicle::Chronicle;
use crate::control::{Watched, has_caller, is_bounded, is_for_now};
use crate::door::Door;
use crate::gate::Gate;
use crate::pause::pause;
use std::alloc::Global;
use std::io::{Read, Write};
use std::net::TcpStream;
use std::sync::atomic::{AtomicBool, Ordering};
use std::sync::{Mutex, Wait};
use std::time::Clock;
use tp_hub::{Answers, Desk, Event, Mark, Ran, SESSIONS, Seat, Stream};
use tp_lines::{LinesEnd, attend_lines};
use tp_lock::{CENSUS, HEALTH, Health, HubLock, LockedDesk, Start, put_census, put_health};
use tp_model::{Refusal, Staged};
use tp_msg::Managed;

/// The streams of those who said that it is to end.
pub(crate) type Askers = Mutex<Vec<TcpStream>>;

/// The line that is answered without a place, as it is sent.
const HEALTH_LINE: &[u8; 7] = b"health\n";

/// How often it is looked what a client without a place has sent. A look that finds no whole line takes
/// 0.2 s at most, so a silent client has a second.
const MOST_LOOKS: u32 = 5;

/// What a control line may want of those who serve.
#[derive(Clone, Copy, Debug, PartialEq, Eq)]
enum Command {
    /// Nobody is let in any more.
    Stop,
    /// The streams of those who are within are at their ends, too.
    StopNow,
    /// What was written is kept.
    Flush,
    /// It is told who is served.
    Clients,
    /// It is told how the pool is.
    Health,
}

/// The command that a line is, if it is one.
fn command_of(line: &[u8]) -> Option<Command>
    ensures some { (command : Command) → result ≡ Some command → IsCommand line.now command }
    ensures none { result ≡ None → (command : Command) → IsCommand line.now command → ⊥ }
{
    if line == b"stop".as_slice() {
        return Some(Command::Stop);
    }
    if line == b"stop now".as_slice() {
        return Some(Command::StopNow);
    }
    if line == b"flush".as_slice() {
        return Some(Command::Flush);
    }
    if line == b"clients".as_slice() {
        return Some(Command::Clients);
    }
    if line == b"health".as_slice() {
        return Some(Command::Health);
    }
    None
}

/// A desk for control lines: commands are obeyed here, and any other line is asked of the hub.
#[derive(Drop)]
struct RuledDesk<'m, R: Wait, V: Staged, A: Chronicle<V>, K: Start<V>> {
    desk: LockedDesk<'m, R, V, A, K>,
    gate: &'m Gate,
    doors: &'m [Door],
    /// Set by a line that ends the server.
    is_stopped: &'m AtomicBool,
}

/// The command was not obeyed, since there was no memory for its answer.
const NOTHING: Ran = Ran {
    events: 0,
    bytes: 0,
};

/// It was.
const WHOLE: Ran = Ran {
    events: 1,
    bytes: 0,
};

/// Tells that a command is obeyed.
fn tell_done(line: &[u8], out: &mut Answers) -> Ran
    ensures { IsAsked (λ took answers. TellsSo line.now (λ told. told ≡ Accepts ∷ []) took answers) (Orders line.now) result.events result.bytes out.old out.new }
{
    if out.make_room().is_err() {
        return NOTHING;
    }
    out.note(Mark::Done);
    WHOLE
}

/// Tells who is served.
fn tell_seats(alloc: Global, seats: &[Seat; SESSIONS], out: &mut Answers)
    requires { HasRoom out.old }
    ensures { IsToldOf seats.now out.old out.new }
{
    let mut line = [0; CENSUS];
    match put_census(alloc, seats, &mut line) {
        Ok(end) => out.tell(&line[..end]),
        Err(_) => out.note(Mark::Refused {
            reason: Refusal::Memory,
        }),
    }
}

/// Tells who is served by a hub.
fn tell_clients<R: Wait, V: Staged, A: Chronicle<V>, K: Start<V>>(
    desk: &LockedDesk<'_, R, V, A, K>,
    line: &[u8],
    out: &mut Answers,
) -> Ran
    ensures { IsAsked (λ took answers. TellsSo line.now TellsWho took answers) (Orders line.now) result.events result.bytes out.old out.new }
{
    if out.make_room().is_err() {
        return NOTHING;
    }
    let seats = desk.hub.seats(desk.rt);
    tell_seats(desk.alloc, &seats, out);
    WHOLE
}

/// Replies with the line of a record.
fn tell_record(health: Health, out: &mut Answers)
    requires { HasRoom out.old }
    ensures { IsToldHow health out.old out.new }
{
    let mut line = [0; HEALTH];
    let end = put_health(health, &mut line);
    out.tell(&line[..end]);
}

/// Replies to a line `health` with a record, unless there is no memory for the reply.
fn tell_health(health: Health, line: &[u8], out: &mut Answers) -> Ran
    ensures { IsAsked (λ took answers. TellsSo line.now (TellsHow health) took answers) (Orders line.now) result.events result.bytes out.old out.new }
{
    if out.make_room().is_err() {
        return NOTHING;
    }
    tell_record(health, out);
    WHOLE
}

/// Asks a desk once for what is no command.
fn ask_hub<R: Wait, V: Managed + Staged, A: Chronicle<V>, K: Start<V>>(
    desk: &mut LockedDesk<'_, R, V, A, K>,
    event: Event<'_>,
    out: &mut Answers,
) -> Ran
    requires { session_of event < 64 }
    ensures { IsAsked (λ took answers. IsRuled V.view took answers) (incoming event.entry) result.events result.bytes out.old out.new }
{
    desk.ask(event, out)
}

/// Asks a desk once for a flush, in the place of a line.
fn flush<R: Wait, V: Managed + Staged, A: Chronicle<V>, K: Start<V>>(
    desk: &mut LockedDesk<'_, R, V, A, K>,
    line: &[u8],
    out: &mut Answers,
) -> Ran
    ensures { IsAsked (λ took answers. TellsSo line.now (λ told. SomeRuns V.view (AsksFlush ∷ []) told) took answers) (Orders line.now) result.events result.bytes out.old out.new }
{
    desk.ask(Event::Flush, out)
}

/// Obeys a command.
fn obey<R: Wait, V: Managed + Staged, A: Chronicle<V>, K: Start<V>>(
    desk: &mut LockedDesk<'_, R, V, A, K>,
    gate: &Gate,
    doors: &[Door],
    command: Command,
    line: &[u8],
    out: &mut Answers,
) -> Ran
    ensures { IsAsked (λ took answers. TellsSo line.now (Obeys V.view command) took answers) (Orders line.now) result.events result.bytes out.old out.new }
{
    match command {
        Command::Stop => {
            gate.shut(desk.rt, doors);
            tell_done(line, out)
        }
        Command::StopNow => {
            gate.clear(desk.rt, doors);
            tell_done(line, out)
        }
        Command::Flush => flush(desk, line, out),
        Command::Clients => tell_clients(desk, line, out),
        Command::Health => tell_health(desk.hub.health(), line, out),
    }
}

/// Obeys a line that is a command, and notes if it ends the server, or asks a desk once for any other.
fn ask_line<R: Wait, V: Managed + Staged, A: Chronicle<V>, K: Start<V>>(
    desk: &mut LockedDesk<'_, R, V, A, K>,
    gate: &Gate,
    doors: &[Door],
    is_stopped: &AtomicBool,
    line: &[u8],
    out: &mut Answers,
) -> Ran
    ensures { IsAsked (λ took answers. IsRuled V.view took answers) (Orders line.now) result.events result.bytes out.old out.new }
{
    match command_of(line) {
        None => ask_hub(desk, Event::Message(line), out),
        Some(command) => {
            let is_last = matches!(command, Command::Stop | Command::StopNow);
            is_stopped.fetch_or(is_last, Ordering::SeqCst);
            obey(desk, gate, doors, command, line, out)
        }
    }
}

/// Tells of a line that was answered last, where it is done and changed something.
fn tell_change<V, A: Chronicle<V>>(chronicle: &A, line: &[u8], ran: Ran, out: &Answers) {
    let is_done = ran.events > 0 && matches!(out.marks().last(), Some(Mark::Done));
    if is_done && command_of(line) != Some(Command::Flush) {
        chronicle.obeyed(line);
    }
}

impl<'m, R, V, A, K> Desk for RuledDesk<'m, R, V, A, K>
where
    R: Wait,
    V: Managed + Staged,
    A: Chronicle<V>,
    K: Start<V>,
{
    ghost use Rattle.tp_crowd.specs.Ruling.{IsRuled};

    ghost asks = { λ a took answers b. IsRuled V.view took answers };

    fn ask(&mut self, event: Event<'_>, out: &mut Answers) -> Ran {
        match event {
            Event::Message(line) => {
                let ran = ask_line(
                    &mut self.desk,
                    self.gate,
                    self.doors,
                    self.is_stopped,
                    line,
                    out,
                );
                tell_change(self.desk.hub.alarm(), line, ran, out);
                ran
            }
            other => ask_hub(&mut self.desk, other, out),
        }
    }
}

/// Answers control lines until there are no more, and sets a flag if one of them ends the server.
fn answer_orders<R, V, A, K, S>(
    rt: &R,
    alloc: Global,
    hub: &HubLock<'_, V, A, K>,
    gate: &Gate,
    doors: &[Door],
    is_stopped: &AtomicBool,
    stream: &mut S,
) -> LinesEnd
where
    R: Wait,
    V: Managed + Staged,
    A: Chronicle<V>,
    K: Start<V>,
    S: Stream,
    ensures { AnswersRulers V.view (S.calls stream.old) (S.calls stream.new) result }
{
    let mut desk = RuledDesk {
        desk: LockedDesk { rt, alloc, hub },
        gate,
        doors,
        is_stopped,
    };
    attend_lines(alloc, &mut desk, stream)
}

/// Answers the lines of one control client. If one of them ends the server, the client gives way to no
/// other one, and its stream is kept.
fn attend_ruler<R, V, A, K>(
    rt: &R,
    alloc: Global,
    hub: &HubLock<'_, V, A, K>,
    gate: &Gate,
    doors: &[Door],
    control: &Door,
    stream: TcpStream,
    are_gone: &AtomicBool,
    is_one_leaving: &AtomicBool,
    askers: &Askers,
)
where
    R: Wait,
    V: Managed + Staged,
    A: Chronicle<V>,
    K: Start<V>,
{
    let is_stopped = AtomicBool::new(false);
    let mut watched = Watched::new(
        &stream,
        are_gone,
        &is_stopped,
        control.descriptor(),
        gate.control().waiting(),
        is_one_leaving,
    );
    answer_orders(rt, alloc, hub, gate, doors, &is_stopped, &mut watched);
    if is_stopped.load(Ordering::SeqCst) {
        let _ = askers.lock(rt).push(stream);
    }
}

/// Answers a control client that has a place, and then those that wait for the place, one after
/// another.
fn attend_rulers<R, V, A, K>(
    rt: &R,
    alloc: Global,
    hub: &HubLock<'_, V, A, K>,
    gate: &Gate,
    doors: &[Door],
    control: &Door,
    first: TcpStream,
    are_gone: &AtomicBool,
    is_one_leaving: &AtomicBool,
    askers: &Askers,
)
where
    R: Wait + Clock,
    V: Managed + Staged,
    A: Chronicle<V>,
    K: Start<V>,
{
    let mut next = Some(first);
    for _ in rt.forever() {
        let Some(stream) = next.take() else {
            return;
        };
        is_one_leaving.store(false, Ordering::SeqCst);
        attend_ruler(
            rt,
            alloc,
            hub,
            gate,
            doors,
            control,
            stream,
            are_gone,
            is_one_leaving,
            askers,
        );
        next = gate.control().next(rt);
    }
}

/// What a client without a place has sent.
#[derive(Clone, Copy)]
enum Sent {
    /// The line `health`, and perhaps more.
    Health,
    /// A part of it, or nothing.
    Less,
    /// Another line.
    Other,
    /// Nothing, and it has left.
    Gone,
}

/// Looks what a client has sent, and leaves that to be read.
fn look_at(stream: &TcpStream) -> Sent {
    let mut line = [0; HEALTH_LINE.len()];
    match stream.peek(&mut line) {
        Ok(0) => Sent::Gone,
        Ok(count) => line_begun(&line[..count]),
        Err(error) if is_for_now(&error) => Sent::Less,
        Err(_) => Sent::Gone,
    }
}

/// Whether a line that has begun so is `health`.
fn line_begun(front: &[u8]) -> Sent {
    if front == HEALTH_LINE.as_slice() {
        return Sent::Health;
    }
    if HEALTH_LINE.starts_with(front) {
        return Sent::Less;
    }
    Sent::Other
}

/// Reads a line `health`, which has come, and sends the client the reply. False if that failed.
fn answer_health(health: Health, mut stream: &TcpStream) -> bool {
    if stream.read_exact(&mut [0; HEALTH_LINE.len()]).is_err() {
        return false;
    }
    let mut text = [0; HEALTH];
    let end = put_health(health, &mut text);
    text[end] = b'\n';
    stream.write_all(&text[..=end]).is_ok()
}

/// Answers the lines `health` of a client that has no place, up to another line, or until the client
/// has been silent for a second, or for 0.2 s if a further one connects. False if it has left.
fn attend_placeless<R, V, A, K>(
    rt: &R,
    hub: &HubLock<'_, V, A, K>,
    control: &Door,
    stream: &TcpStream,
    are_gone: &AtomicBool,
) -> bool
where
    R: Wait + Clock,
    V: Staged,
    A: Chronicle<V>,
    K: Start<V>,
{
    for _ in 0..MOST_LOOKS {
        match look_at(stream) {
            Sent::Health => {
                if !answer_health(hub.health(), stream) {
                    return false;
                }
            }
            Sent::Less => {
                pause(rt);
                if are_gone.load(Ordering::SeqCst) || has_caller(control.descriptor()) {
                    return true;
                }
            }
            Sent::Other => return true,
            Sent::Gone => return false,
        }
    }
    true
}

/// Takes a place for a control client that has connected, and returns the client. If no place is free,
/// its lines `health` are answered, and then it waits. It is disconnected if its calls cannot be bounded
/// in time.
fn place_ruler<R, V, A, K>(
    rt: &R,
    hub: &HubLock<'_, V, A, K>,
    gate: &Gate,
    control: &Door,
    stream: TcpStream,
    are_gone: &AtomicBool,
) -> Option<TcpStream>
where
    R: Wait + Clock,
    V: Staged,
    A: Chronicle<V>,
    K: Start<V>,
{
    if !is_bounded(&stream) {
        return None;
    }
    if gate.control().take_place(rt) {
        return Some(stream);
    }
    if !attend_placeless(rt, hub, control, &stream, are_gone) {
        return None;
    }
    gate.control().enter(rt, stream)
}

/// Takes control clients, one after the other, until the others are gone. One thread more than there
/// are places calls it, so one of them always accepts the next client.
pub(crate) fn rule<R, V, A, K>(
    rt: &R,
    alloc: Global,
    hub: &HubLock<'_, V, A, K>,
    gate: &Gate,
    doors: &[Door],
    control: &Door,
    are_gone: &AtomicBool,
    is_one_leaving: &AtomicBool,
    askers: &Askers,
)
where
    R: Wait + Clock,
    V: Managed + Staged,
    A: Chronicle<V>,
    K: Start<V>,
{
    for _ in rt.forever() {
        if are_gone.load(Ordering::SeqCst) {
            return;
        }
        match control.accept() {
            Ok((client, _)) => {
                if let Some(first) = place_ruler(rt, hub, gate, control, client, are_gone) {
                    attend_rulers(
                        rt,
                        alloc,
                        hub,
                        gate,
                        doors,
                        control,
                        first,
                        are_gone,
                        is_one_leaving,
                        askers,
                    );
                }
            }
            Err(error) => {
                if !are_gone.load(Ordering::SeqCst) {
                    hub.alarm().not_accepted(&error);
                }
                pause(rt);
            }
        }
    }
}
