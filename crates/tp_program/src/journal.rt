//! The log of `run` on standard error.

use crate::moment::Moment;
use crate::space::{Mode, Space, Use, space_in};
use std::alloc::{AllocError, Global};
use std::fmt::{self, Display, Formatter};
use std::io::{self, Write};
use std::mem;
use std::net::SocketAddr;
use std::sync::atomic::{AtomicBool, AtomicU8, AtomicU64, Ordering};
use std::sync::{Condvar, Mutex, Wait};
use std::time::Clock;
use tp_cache::ReadCache;
use tp_crowd::{Alarm, Chronicle, Visit, Visitor};
use tp_disk::{Disk, TellsTrouble, Trouble};
use tp_meta::Meta;
use tp_model::Refusal;
use tp_served::Served;
use tp_words::{Service, Texts};

/// The most lines that wait to be written. Further lines are lost.
const MOST_LINES: usize = 1000;

/// The default of `--low-water`, in percent.
const LOW_WATER: u64 = 10;

/// The most data blocks that one write of 1 MiB needs.
const MOST_DATA: u64 = 17;

/// More metadata blocks than one write needs.
const MOST_METADATA: u64 = 64;

/// The most bytes of a name that a client sent which are logged.
const MOST_NAME: usize = 64;

/// The TCP address of each door of clients, if it has one.
pub(crate) type Addresses = [Option<SocketAddr>; 4];

/// The lines that are to be written, and whether no more come.
#[derive(Drop)]
struct Pages {
    lines: Vec<String>,
    is_closed: bool,
}

/// The log: a queue of lines that a thread of its own writes to standard error.
///
/// A call that adds a line does not wait for the writer. A line is lost if there is no memory for it,
/// or if `MOST_LINES` lines wait.
#[derive(Drop)]
pub(crate) struct Journal<'m, R: Wait + Clock> {
    rt: &'m R,
    alloc: Global,
    image: &'m str,
    places: Texts<'m>,
    addresses: Addresses,
    is_quiet: bool,
    ends_on_failure: bool,
    low_water: u64,
    pages: Mutex<Pages>,
    has_more: Condvar,
    /// Whether the last warning was that little is free.
    is_data_low: AtomicBool,
    is_metadata_low: AtomicBool,
    /// The number of the mode that the last status line had.
    mode: AtomicU8,
    /// One more than the client that was refused space last, since the last status line; 0 for none.
    refused: AtomicU8,
    /// Whether that was logged since a status line had more free blocks.
    is_refused: AtomicBool,
    /// The free blocks of the last status line: of data, and of metadata for writes.
    free_data: AtomicU64,
    free_metadata: AtomicU64,
    /// The second in which an event of each kind was logged last.
    waited: AtomicU64,
    control_waited: AtomicU64,
    not_accepted: AtomicU64,
    not_found: AtomicU64,
}

/// A listener: its TCP address, otherwise the text that names it.
#[derive(Clone, Copy)]
struct Place<'a> {
    address: Option<SocketAddr>,
    text: &'a str,
}

impl Display for Place<'_> {
    fn fmt<W: fmt::Write>(&self, f: &mut Formatter<W>) -> fmt::Result {
        match self.address {
            Some(address) => write!(f, "{address}"),
            None => f.write_str(self.text),
        }
    }
}

/// An event of the log.
#[derive(Clone, Copy)]
enum News<'a> {
    Came(Place<'a>, &'a Visitor),
    Went(&'a Visitor, &'a Visit),
    Obeyed(&'a str),
    Failed(&'a str, Option<Trouble>),
    Low(&'a str, Use),
    Became(Mode, &'a str),
    NoSpace(u8),
    Waits(Place<'a>, Option<SocketAddr>),
    ControlWaits,
    NotAccepted(&'a io::Error),
    NoVolume(u8, &'a [u8]),
    Cleared(u32),
    NotCleared,
}

impl Display for News<'_> {
    fn fmt<W: fmt::Write>(&self, f: &mut Formatter<W>) -> fmt::Result {
        match self {
            News::Came(place, visitor) => tell_coming(place, visitor, f),
            News::Went(visitor, visit) => tell_going(visitor, visit, f),
            News::Obeyed(line) => write!(f, "control: {line}"),
            News::Failed(image, trouble) => tell_failure(image, trouble, f),
            News::Low(kind, blocks) => tell_low(kind, blocks, f),
            News::Became(mode, image) => tell_mode(*mode, image, f),
            News::NoSpace(number) => write!(
                f,
                "client {number}: a write was refused for lack of space; delete volumes, or discard data in them"
            ),
            News::Waits(place, peer) => tell_waiting(place, *peer, f),
            News::ControlWaits => f.write_str("a control client waits: 4 others are connected"),
            News::NotAccepted(error) => write!(f, "cannot accept a client: {error}"),
            News::NoVolume(number, name) => tell_name(*number, name, f),
            News::Cleared(count) => tell_cleared(*count, f),
            News::NotCleared => write!(
                f,
                "out of memory: clones left by a previous server were not deleted"
            ),
        }
    }
}

/// Writes that a client connected, and to which address.
fn tell_coming<W: fmt::Write>(
    place: &Place<'_>,
    visitor: &Visitor,
    f: &mut Formatter<W>,
) -> fmt::Result {
    write!(f, "client {} connected to {place}", visitor.number)?;
    match visitor.peer {
        Some(peer) => write!(f, " from {peer}"),
        None => Ok(()),
    }
}

/// Writes that a client disconnected, with its volume, requests and bytes.
fn tell_going<W: fmt::Write>(
    visitor: &Visitor,
    visit: &Visit,
    f: &mut Formatter<W>,
) -> fmt::Result {
    write!(f, "client {} disconnected: ", visitor.number)?;
    match visit.volume {
        Some(volume) => write!(f, "volume {}", volume.number())?,
        None => f.write_str("no volume")?,
    }
    write!(
        f,
        ", {} requests, {} bytes in, {} bytes out",
        visit.requests, visit.received, visit.sent
    )
}

/// Writes that the pool failed, and why.
fn tell_failure<W: fmt::Write>(
    image: &str,
    trouble: &Option<Trouble>,
    f: &mut Formatter<W>,
) -> fmt::Result {
    write!(f, "{}: the pool failed", Refusal::Fault)?;
    match trouble {
        Some(trouble) => write!(f, ": {image}: {trouble}"),
        None => Ok(()),
    }
}

/// Writes that the pool has another mode, why, and what to do.
fn tell_mode<W: fmt::Write>(mode: Mode, image: &str, f: &mut Formatter<W>) -> fmt::Result {
    match mode {
        Mode::Writable => f.write_str("the pool accepts writes again"),
        Mode::OutOfData => f.write_str(
            "out of data space: writes to new blocks are refused; delete volumes, or discard data in them",
        ),
        Mode::ReadOnly => write!(
            f,
            "out of metadata space: the pool is read-only; stop the server, run `thinpool check {image} --clear-needs-check-flag`, then release the metadata snapshot or delete volumes"
        ),
    }
}

/// Writes that a client waits until another one disconnects.
fn tell_waiting<W: fmt::Write>(
    place: &Place<'_>,
    peer: Option<SocketAddr>,
    f: &mut Formatter<W>,
) -> fmt::Result {
    write!(f, "a client waits at {place}")?;
    if let Some(peer) = peer {
        write!(f, " from {peer}")?;
    }
    f.write_str(": 64 others are connected")
}

/// Writes the name of a volume that does not exist, escaped, and at most its first `MOST_NAME` bytes.
fn tell_name<W: fmt::Write>(number: u8, name: &[u8], f: &mut Formatter<W>) -> fmt::Result {
    write!(f, "client {number}: no volume '")?;
    let front = name.get(..MOST_NAME).unwrap_or(name);
    for byte in front {
        match byte {
            b' '..=b'&' | b'('..=b'[' | b']'..=b'~' => write!(f, "{}", char::from(*byte))?,
            _ => write!(f, "\\x{byte:02x}")?,
        }
    }
    f.write_str(if front.len() < name.len() { "'.." } else { "'" })
}

/// Writes that few blocks of a kind are free.
fn tell_low<W: fmt::Write>(kind: &str, blocks: &Use, f: &mut Formatter<W>) -> fmt::Result {
    write!(
        f,
        "{kind} is low: {} of {} blocks are free",
        blocks.free(),
        blocks.all
    )
}

/// Writes how many clones were deleted.
fn tell_cleared<W: fmt::Write>(count: u32, f: &mut Formatter<W>) -> fmt::Result {
    write!(f, "deleted {count} clones left by a previous server")
}

impl<'m, R: Wait + Clock> Journal<'m, R> {
    /// Nothing was noted yet.
    pub(crate) fn new(
        rt: &'m R,
        alloc: Global,
        image: &'m str,
        service: &Service<'m>,
        addresses: Addresses,
    ) -> Journal<'m, R> {
        Journal {
            rt,
            alloc,
            image,
            places: service.places,
            addresses,
            is_quiet: service.is_quiet,
            ends_on_failure: service.ends_on_failure,
            low_water: service.low_water.unwrap_or(LOW_WATER),
            pages: Mutex::new(Pages {
                lines: Vec::new(alloc),
                is_closed: false,
            }),
            has_more: Condvar::new(),
            is_data_low: AtomicBool::new(false),
            is_metadata_low: AtomicBool::new(false),
            mode: AtomicU8::new(Mode::Writable as u8),
            refused: AtomicU8::new(0),
            is_refused: AtomicBool::new(false),
            free_data: AtomicU64::new(0),
            free_metadata: AtomicU64::new(0),
            waited: AtomicU64::new(0),
            control_waited: AtomicU64::new(0),
            not_accepted: AtomicU64::new(0),
            not_found: AtomicU64::new(0),
        }
    }

    /// The TCP address of the door of this index, if it has one.
    fn address(&self, index: usize) -> Option<SocketAddr> {
        match self.addresses.get(index) {
            Some(address) => *address,
            None => None,
        }
    }

    /// The door of this index.
    fn place(&self, index: usize) -> Place<'m> {
        let text = match index {
            0 => Some(self.places.first),
            1 => self.places.second,
            2 => self.places.third,
            _ => self.places.fourth,
        };
        Place {
            address: self.address(index),
            text: text.unwrap_or(""),
        }
    }

    /// Adds a line with the current time.
    fn note(&self, news: &News<'_>) {
        let moment = Moment::now(self.rt);
        let Ok(line) = format!(in self.alloc; "thinpool: {moment} {news}\n") else {
            return;
        };
        let mut pages = self.pages.lock(self.rt);
        if pages.lines.len() < MOST_LINES {
            let _ = pages.lines.push(line);
        }
        drop(pages);
        self.has_more.notify_one();
    }

    /// Logs `news` unless `--quiet` was given.
    fn note_unless_quiet(&self, news: &News<'_>) {
        if !self.is_quiet {
            self.note(news);
        }
    }

    /// Logs once that little is free, until more is free again.
    fn look_at(&self, kind: &str, blocks: Use, was_low: &AtomicBool) {
        let is_low = blocks.is_below(self.low_water);
        if !was_low.swap(is_low, Ordering::SeqCst) && is_low {
            self.note_unless_quiet(&News::Low(kind, blocks));
        }
    }

    /// Logs an event of a kind that is logged at most once in each second, unless `--quiet` was given.
    fn note_in_second(&self, last: &AtomicU64, news: &News<'_>) {
        let second = Moment::now(self.rt).seconds();
        if last.swap(second, Ordering::SeqCst) != second {
            self.note_unless_quiet(news);
        }
    }

    /// Logs the mode of the pool if it is another one than before.
    fn look_at_mode(&self, mode: Mode) {
        let mode_number = mode as u8;
        if self.mode.swap(mode_number, Ordering::SeqCst) != mode_number {
            self.note(&News::Became(mode, self.image));
        }
    }

    /// Lets the next refused write be logged if blocks became free.
    fn look_at_free(&self, data: u64, metadata: u64) {
        let had_data = self.free_data.swap(data, Ordering::SeqCst);
        let had_metadata = self.free_metadata.swap(metadata, Ordering::SeqCst);
        if had_data < data || had_metadata < metadata {
            self.is_refused.store(false, Ordering::SeqCst);
        }
    }

    /// Logs once that a client was refused space, until blocks become free. With this much free space
    /// it wrote beyond the end of its volume, which has the same error.
    fn look_at_refused(&self, data: u64, metadata: u64) {
        let Some(number) = self.refused.swap(0, Ordering::SeqCst).checked_sub(1) else {
            return;
        };
        let is_short = data < MOST_DATA || metadata < MOST_METADATA;
        if is_short && !self.is_refused.swap(true, Ordering::SeqCst) {
            self.note(&News::NoSpace(number));
        }
    }

    /// Logs how many clones of a previous server were deleted, if there were any.
    pub(crate) fn cleared(&self, cleared: Result<u32, AllocError>) {
        match cleared {
            Ok(count) => {
                if count > 0 {
                    self.note_unless_quiet(&News::Cleared(count));
                }
            }
            Err(_) => self.note(&News::NotCleared),
        }
    }

    /// No more lines come.
    pub(crate) fn close(&self) {
        let mut pages = self.pages.lock(self.rt);
        pages.is_closed = true;
        drop(pages);
        self.has_more.notify_one();
    }

    /// Waits for lines, takes them, and tells whether no more come.
    fn take(&self) -> (Vec<String>, bool) {
        let pages = self.pages.lock(self.rt);
        let mut pages = self.has_more.wait_while(
            self.rt,
            pages,
            |pages| pages.lines.is_empty() && !pages.is_closed,
        );
        let lines = mem::replace(&mut pages.lines, Vec::new(self.alloc));
        (lines, pages.is_closed)
    }

    /// Writes lines as they are noted, until no more come. Where the writer fails they are lost.
    pub(crate) fn write_to<E: Write>(&self, errors: &mut E) {
        for _ in self.rt.forever() {
            let (lines, is_closed) = self.take();
            write_lines(&lines, errors);
            if is_closed {
                return;
            }
        }
    }
}

/// Writes lines.
fn write_lines<E: Write>(lines: &[String], errors: &mut E) {
    for line in lines {
        let _ = errors.write_all(line.as_bytes());
    }
}

impl<'m, R, D> Alarm<Served<ReadCache<D>, Meta>> for Journal<'m, R>
where
    R: Wait + Clock,
    D: Disk + TellsTrouble + Drop,
{
    type Cause = Option<Trouble>;

    fn cause(&self, pool: &Served<ReadCache<D>, Meta>) -> Option<Trouble> {
        pool.disk().trouble()
    }

    fn pool_failed(&self, cause: Option<Trouble>) {
        self.note(&News::Failed(self.image, cause));
    }
}

impl<'m, R, D> Chronicle<Served<ReadCache<D>, Meta>> for Journal<'m, R>
where
    R: Wait + Clock,
    D: Disk + TellsTrouble + Drop,
{
    fn came(&self, visitor: &Visitor) {
        let place = self.place(visitor.door);
        self.note_unless_quiet(&News::Came(place, visitor));
    }

    fn went(&self, visitor: &Visitor, visit: &Visit) {
        self.note_unless_quiet(&News::Went(visitor, visit));
    }

    fn obeyed(&self, line: &[u8]) {
        if let Ok(line) = std::str::from_utf8(line) {
            self.note_unless_quiet(&News::Obeyed(line));
        }
    }

    fn status(&self, line: &[u8]) {
        let Ok(line) = std::str::from_utf8(line) else {
            return;
        };
        if let Some(
            Space {
                metadata,
                data,
                mode,
            },
        ) = space_in(line)
        {
            self.look_at_mode(mode);
            self.look_at_free(data.free(), metadata.free());
            self.look_at_refused(data.free(), metadata.free());
            self.look_at("data", data, &self.is_data_low);
            self.look_at("metadata", metadata, &self.is_metadata_low);
        }
    }

    fn waits(&self, door: usize, peer: Option<SocketAddr>) {
        self.note_in_second(&self.waited, &News::Waits(self.place(door), peer));
    }

    fn control_waits(&self) {
        self.note_in_second(&self.control_waited, &News::ControlWaits);
    }

    fn not_accepted(&self, error: &io::Error) {
        self.note_in_second(&self.not_accepted, &News::NotAccepted(error));
    }

    fn no_volume(&self, number: u8, name: &[u8]) {
        self.note_in_second(&self.not_found, &News::NoVolume(number, name));
    }

    fn ends_on_failure(&self) -> bool {
        self.ends_on_failure
    }

    fn no_space(&self, number: u8) {
        self.refused
            .store(number.saturating_add(1), Ordering::SeqCst);
    }
}
