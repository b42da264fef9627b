//! Clients of a listener, and beside them control lines from another one.

ghost use Rattle.std.specs.Prelude.{◌≡◌, ◌<◌, ◌≤◌, length};
ghost use Rattle.std.specs.Iterator.{IsFinite, size};
ghost use Rattle.tp_hub.specs.Streams.{GivesSome, TakesSome};
ghost use Rattle.tp_lock.specs.Locked.{CameOf, IsFrom};
ghost use Rattle.tp_crowd.specs.Ruling.{AnswersControl};

use crate::crowd::{RefusedFlags, Served, behind_all, not_refused, refused_by_now};
use crate::listening::{Accepted, attend_streams};
use crate::pause::{PAUSE, pause};
use libc::net::{POLLIN, poll};
use libc::types::pollfd;
use std::alloc::Global;
use std::io::{ErrorKind, Read, Write};
use std::marker::Brand;
use std::net::{TcpListener, TcpStream};
use std::os::fd::{AsRawFd, RawFd};
use std::sync::Wait;
use std::sync::atomic::{AtomicBool, AtomicU64, Ordering};
use std::thread::Threads;
use std::time::{Clock, Duration};
use std::{io, thread};
use tp_hub::{Hub, Log, Made, Put, Received, Stream};
use tp_lines::{LinesEnd, attend_lines};
use tp_lock::{Alarm, HubLock, LockedDesk, Start};
use tp_model::Staged;
use tp_msg::Managed;

/// A control client that takes no byte of an answer for so many milliseconds is dropped.
const PATIENCE: u64 = 2000;

/// Reads in a row that bring nothing after which a control client gives way to others. Each waits
/// for a tenth of a second, so these take 30 s.
const MOST_SILENT: u32 = 300;

/// Looks in a row, a tenth of a second apart, that must find another client before this one gives
/// way to it: at one alone it may be on its way to a thread that is free.
const MOST_LOOKS: u32 = 3;

/// Serves so many clients of a listener as [`serve_listener`](crate::serve_listener) does, and beside them, on a thread of its own, answers the lines of
/// control clients, who come to another listener one after the other. Each line is answered as `tp_lines::answer_line` does: it is one ask of the
/// hub, which waits for its lock like any other.
///
/// The control side ends when the last client has, and drops what it has not read then: it looks before each read, which takes 256 bytes at most and waits 100
/// milliseconds at most. It ends earlier where an accept of it fails, or no thread can be made for it; the clients go on then. A control client for whose
/// lines there is no memory, who takes nothing of an answer for 2 seconds, or whose stream fails is dropped. So is one that sends nothing for 30 seconds, if
/// another one waits then. Its listener is left nonblocking. A line by which the pool fails sounds the alarm as a request does.
pub fn serve_listener_with_control<R, V, A>(
    rt: &R,
    alloc: Global,
    hub: Hub<V>,
    listener: TcpListener,
    count: u8,
    control: &TcpListener,
    alarm: &A,
) -> Served<V>
where
    R: Threads + Wait + Clock + Sync,
    V: Managed + Staged + Send + Sync,
    V::Midway: Send + Sync,
    A: Alarm<V> + Sync,
    ensures asked { CameOf V.view hub result.hub }
    ensures came { result.came ≤ 64 }
    ensures offered { result.came ≤ count }
    ensures refused { result.refused ≤ result.came }
{
    serve_since::<R, V, A, Brand>(rt, alloc, hub, listener, count, control, alarm)
}

/// The same of a hub that is such a start.
fn serve_since<R, V, A, K>(
    rt: &R,
    alloc: Global,
    hub: Hub<V>,
    listener: TcpListener,
    count: u8,
    control: &TcpListener,
    alarm: &A,
) -> Served<V>
where
    R: Threads + Wait + Clock + Sync,
    V: Managed + Staged + Send + Sync,
    V::Midway: Send + Sync,
    A: Alarm<V> + Sync,
    K: Start<V> + Send + Sync,
    requires { K.is_start hub }
    ensures asked { IsFrom V.view K.is_start result.hub }
    ensures came { result.came ≤ 64 }
    ensures offered { result.came ≤ count }
    ensures refused { result.refused ≤ result.came }
{
    let shared = HubLock::<V, A, K>::new(hub, alarm);
    let refused = std::array::from_fn(not_refused);
    let clients = Accepted::new(listener, count);
    let came = attend_both(rt, alloc, &shared, &refused, clients, control);
    behind_all(shared, &refused_by_now(&refused), came)
}

/// Starts the control side, serves the clients, and tells how many came when all are done.
fn attend_both<R, V, A, K, I>(
    rt: &R,
    alloc: Global,
    hub: &HubLock<'_, V, A, K>,
    refused: &RefusedFlags,
    clients: I,
    control: &TcpListener,
) -> u8
where
    R: Threads + Wait + Clock + Sync,
    V: Managed + Staged + Send + Sync,
    V::Midway: Send + Sync,
    A: Alarm<V> + Sync,
    K: Start<V> + Send + Sync,
    I: Iterator<Item = TcpStream> + Drop,
    requires can { I.can_next clients }
    requires ends { IsFinite (I.remaining clients) }
    ensures few { result ≤ 64 }
    ensures offered { result ≤ size (I.remaining clients) }
{
    let are_gone = AtomicBool::new(false);
    let are_gone = &are_gone;
    thread::scope(
        thread::scope_env(),
        rt,
        move |scope| -> u8
            requires { I.can_next clients × IsFinite (I.remaining clients) }
            ensures { (result ≤ 64) × (result ≤ size (I.remaining clients)) }
        {
            let side = move || attend_control(rt, alloc, hub, control, are_gone);
            let _ = scope.spawn(side);
            let came = attend_streams(rt, alloc, hub, refused, clients);
            are_gone.store(true, Ordering::SeqCst);
            came
        },
    )
}

/// Takes control clients, one after the other, until the others are gone or an accept fails.
fn attend_control<R, V, A, K>(
    rt: &R,
    alloc: Global,
    hub: &HubLock<'_, V, A, K>,
    control: &TcpListener,
    are_gone: &AtomicBool,
)
where
    R: Wait + Clock,
    V: Managed + Staged,
    A: Alarm<V>,
    K: Start<V>,
{
    if control.set_nonblocking(true).is_err() {
        return;
    }
    for _ in 0..u64::MAX {
        if are_gone.load(Ordering::SeqCst) {
            return;
        }
        match control.accept() {
            Ok((stream, _)) => attend_stream(rt, alloc, hub, &stream, are_gone, control),
            Err(error) if is_for_now(&error) => pause(rt),
            Err(_) => return,
        }
    }
}

/// Whether a call may be made again: it waited too long, or was interrupted, or the one who came is gone already.
pub(crate) fn is_for_now(error: &io::Error) -> bool {
    matches!(
        error.kind(),
        ErrorKind::WouldBlock
            | ErrorKind::TimedOut
            | ErrorKind::Interrupted
            | ErrorKind::ConnectionAborted
    )
}

/// Bounds the calls of a control client's stream in time, where the system lets it.
pub(crate) fn is_bounded(stream: &TcpStream) -> bool {
    let _ = stream.set_nodelay(true);
    stream
        .set_read_timeout(Some(Duration::from_millis(PAUSE)))
        .is_ok()
        && stream
            .set_write_timeout(Some(Duration::from_millis(PATIENCE)))
            .is_ok()
}

/// Answers the lines of one control client. It is dropped where no call of it can be bounded in time.
fn attend_stream<R, V, A, K>(
    rt: &R,
    alloc: Global,
    hub: &HubLock<'_, V, A, K>,
    stream: &TcpStream,
    are_gone: &AtomicBool,
    control: &TcpListener,
)
where
    R: Wait,
    V: Managed + Staged,
    A: Alarm<V>,
    K: Start<V>,
{
    if !is_bounded(stream) {
        return;
    }
    let is_kept = AtomicBool::new(false);
    let is_one_leaving = AtomicBool::new(false);
    let waiting = AtomicU64::new(0);
    let mut watched = Watched::new(
        stream,
        are_gone,
        &is_kept,
        control.as_raw_fd(),
        &waiting,
        &is_one_leaving,
    );
    answer_lines(rt, alloc, hub, &mut watched);
}

/// Answers control lines over a hub behind a lock, as [`attend_lines`] does over any desk. Others ask the same hub in between, so an ask for a line is known
/// to be a run of some sessions over some pool, and not of which.
fn answer_lines<R, V, A, K, S>(
    rt: &R,
    alloc: Global,
    hub: &HubLock<'_, V, A, K>,
    stream: &mut S,
) -> LinesEnd
where
    R: Wait,
    V: Managed + Staged,
    A: Alarm<V>,
    K: Start<V>,
    S: Stream,
    ensures { AnswersControl V.view (S.calls stream.old) (S.calls stream.new) result }
{
    let mut desk = LockedDesk { rt, alloc, hub };
    attend_lines(alloc, &mut desk, stream)
}

/// A control client's stream, which is at its end when the others are gone, or when it must give way
/// to another control client. A read that waited too long counts as interrupted: it is made again,
/// after another look.
#[derive(Drop)]
pub(crate) struct Watched<'a> {
    log: Log,
    stream: &'a TcpStream,
    are_gone: &'a AtomicBool,
    /// Whether it gives way to no other client.
    is_kept: &'a AtomicBool,
    /// The descriptor of the listener at which other control clients wait.
    listener: RawFd,
    /// How many were accepted there and wait for a place.
    waiting: &'a AtomicU64,
    /// Whether one gives way, and the next one was not accepted since.
    is_one_leaving: &'a AtomicBool,
    /// How many reads in a row brought nothing.
    silent: u32,
    /// How many looks in a row found another client that waits for it.
    looks: u32,
}

impl<'a> Watched<'a> {
    /// No call of it was made yet.
    pub(crate) fn new(
        stream: &'a TcpStream,
        are_gone: &'a AtomicBool,
        is_kept: &'a AtomicBool,
        listener: RawFd,
        waiting: &'a AtomicU64,
        is_one_leaving: &'a AtomicBool,
    ) -> Watched<'a> {
        Watched {
            log: Log::new(),
            stream,
            are_gone,
            is_kept,
            listener,
            waiting,
            is_one_leaving,
            silent: 0,
            looks: 0,
        }
    }

    /// Whether it was silent for long, and another control client waits.
    fn is_in_the_way(&self) -> bool {
        self.silent >= MOST_SILENT
            && !self.is_kept.load(Ordering::SeqCst)
            && (self.waiting.load(Ordering::SeqCst) > 0 || has_caller(self.listener))
    }

    /// Whether it gives way now: of those that are in the way one does, until the next client is
    /// accepted.
    fn gives_way(&self) -> bool {
        self.looks >= MOST_LOOKS && !self.is_one_leaving.swap(true, Ordering::SeqCst)
    }

    /// Whether nothing more is read of it.
    fn is_over(&self) -> bool {
        self.are_gone.load(Ordering::SeqCst) || self.gives_way()
    }
}

/// How often something was so in a row, after one more look.
fn in_a_row(count: u32, is_so: bool) -> u32 {
    if is_so { count.saturating_add(1) } else { 0 }
}

/// Whether a client has connected to a listener and was not accepted yet.
pub(crate) fn has_caller(listener: RawFd) -> bool {
    let mut asked = [pollfd {
        fd: listener,
        events: POLLIN,
        revents: 0,
    }];
    poll(&mut asked, 0) == 1
}

/// Reads some bytes to the front of the buffer.
fn read_some(mut stream: &TcpStream, buffer: &mut [u8]) -> Received
    requires { 0 < length buffer.old }
    ensures some { GivesSome result (length buffer.new) }
    ensures len { length buffer.new ≡ length buffer.old }
{
    match stream.read(buffer) {
        Ok(0) => Received::End,
        Ok(count) => Received::Got(count),
        Err(error) if is_for_now(&error) => Received::NotNow,
        Err(_) => Received::Broken,
    }
}

/// Writes some of the bytes.
fn write_some(mut stream: &TcpStream, bytes: &[u8]) -> Put
    ensures { TakesSome result (length bytes.now) }
{
    match stream.write(bytes) {
        Ok(0) => Put::Failed,
        Ok(count) => Put::Wrote(count),
        Err(error) if error.kind() == ErrorKind::Interrupted => Put::Interrupted,
        Err(_) => Put::Failed,
    }
}

/// Reads, unless it is over.
fn read_unless(stream: &TcpStream, is_over: bool, buffer: &mut Vec<u8>) -> Received
    requires { 0 < length buffer.old.items }
    ensures some { GivesSome result (length buffer.new.items) }
    ensures len { length buffer.new.items ≡ length buffer.old.items }
{
    if is_over {
        return Received::End;
    }
    read_some(stream, buffer.as_mut_slice())
}

impl<'a> Stream for Watched<'a> {
    ghost calls = { λ watched. watched.log.calls };

    fn receive(&mut self, buffer: &mut Vec<u8>) -> Received {
        self.looks = in_a_row(self.looks, self.is_in_the_way());
        let received = read_unless(self.stream, self.is_over(), buffer);
        self.silent = in_a_row(self.silent, !matches!(received, Received::Got(_)));
        self.log.note(&Made::Read(received), buffer.as_slice());
        received
    }

    fn send(&mut self, bytes: &[u8]) -> Put {
        let put = write_some(self.stream, bytes);
        self.log.note(&Made::Written(put), bytes);
        put
    }

    fn flush(&mut self) -> bool {
        let mut stream = self.stream;
        let done = stream.flush().is_ok();
        self.log.note(&Made::Flushed(done), &[]);
        done
    }
}
