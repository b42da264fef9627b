//! A case at work: its disk, the pool on it or a server of the pool, and the reference model.

use crate::disk::{ScriptDisk, Tally};
use crate::idle::IdlePool;
use crate::server::{CONNECTIONS, Connection, handle};
use crate::stage::{Stage, serve, stop};
use std::alloc::{AllocError, Global};
use tp_hub::{Answers, Event};
use tp_model::{Geometry, Refusal};
use tp_reference::{History, Reference, used_metadata_in};
use tp_script::{Answer, Buffer, Caller, add_answer};
use tp_served::Room;

/// How many lines reported that the disk failed.
#[derive(Clone, Copy)]
pub(crate) struct Faults {
    /// Options of clients.
    pub options: u64,
    pub reads: u64,
    /// Calls that change the pool, or commit.
    pub changes: u64,
    pub closings: u64,
}

impl Faults {
    pub(crate) const NONE: Faults = Faults {
        options: 0,
        reads: 0,
        changes: 0,
        closings: 0,
    };

    pub(crate) fn total(&self) -> u64 {
        self.options
            .saturating_add(self.reads)
            .saturating_add(self.changes)
            .saturating_add(self.closings)
    }

    pub(crate) fn add(&mut self, more: &Faults) {
        self.options = self.options.saturating_add(more.options);
        self.reads = self.reads.saturating_add(more.reads);
        self.changes = self.changes.saturating_add(more.changes);
        self.closings = self.closings.saturating_add(more.closings);
    }
}

/// No disk call has this number.
pub(crate) const NO_CALLS: (u64, u64) = (0, 0);

/// A case at work.
#[derive(Drop)]
pub(crate) struct World {
    pub alloc: Global,
    pub room: Room,
    pub stage: Stage,
    /// The reference model, unless the case does without.
    pub history: Option<History>,
    /// Whether the pool has failed.
    pub has_failed: bool,
    /// Whether there was memory for all that the reference model had to do.
    has_memory: bool,
    /// Whether the server was refused memory in the last line, and then went on.
    pub has_resumed: bool,
    /// The last allocation that marks where a tool refuses others.
    pub mark: Vec<u8>,
    pub connections: [Connection; CONNECTIONS],
    pub out: Answers,
    /// The text that the last line reported.
    pub report: Buffer,
    /// The values of the sectors that the last line read.
    pub values: Buffer,
    /// The bytes of the last read or write.
    pub bytes: Buffer,
    /// The answer that the reference model requires of the last line, if it got another one.
    pub mismatch: Buffer,
    /// The disk's calls up to the last line `calls`.
    pub tally: Tally,
    /// The writes of metadata blocks up to the last line `metadata-writes`.
    pub writes: Vec<u64>,
    /// The numbers of the first and the last disk call that fail.
    pub failing: (u64, u64),
    /// Whether lines are played in a matrix, in which a read that failed is repeated.
    pub is_in_matrix: bool,
    /// The first sector after the metadata.
    pub border: u64,
    pub cookie: u64,
    pub faults: Faults,
}

impl World {
    fn new(alloc: Global) -> World {
        World {
            alloc,
            room: Room {
                changed: 1024,
                read: 256,
            },
            stage: Stage::Empty,
            history: None,
            has_failed: false,
            has_memory: true,
            has_resumed: false,
            mark: Vec::new(alloc),
            connections: [Connection::CLOSED; CONNECTIONS],
            out: Answers::new(alloc),
            report: Buffer::new(alloc),
            values: Buffer::new(alloc),
            bytes: Buffer::new(alloc),
            mismatch: Buffer::new(alloc),
            tally: Tally::NONE,
            writes: Vec::new(alloc),
            failing: NO_CALLS,
            is_in_matrix: false,
            border: 0,
            cookie: 1,
            faults: Faults::NONE,
        }
    }

    /// Returns a case that has not begun. It is on the heap: a function that owns one is expensive
    /// to prove otherwise.
    #[inline(never)]
    pub(crate) fn boxed(alloc: Global) -> Result<Box<World>, AllocError> {
        Ok(Box::new(alloc, World::new(alloc))?)
    }

    pub(crate) fn take_stage(&mut self) -> Stage {
        std::mem::replace(&mut self.stage, Stage::Empty)
    }

    /// Takes the disk, if there is no pool on it.
    pub(crate) fn take_disk(&mut self) -> Option<Box<ScriptDisk>> {
        if !matches!(&self.stage, Stage::Disk(_)) {
            return None;
        }
        match self.take_stage() {
            Stage::Disk(disk) => Some(disk),
            _ => None,
        }
    }

    /// Takes the pool, if no server is over it.
    fn take_idle(&mut self) -> Option<Box<IdlePool>> {
        if !matches!(&self.stage, Stage::Pool(_)) {
            return None;
        }
        match self.take_stage() {
            Stage::Pool(idle) => Some(idle),
            _ => None,
        }
    }

    /// Stops the server, if there is one: all its connections are closed.
    fn stop_server(&mut self) {
        if matches!(&self.stage, Stage::Server(_)) {
            if let Stage::Server(server) = self.take_stage() {
                self.stage = stop(self.alloc, server);
            }
        }
    }

    /// Takes the pool, after all connections of its server are closed.
    pub(crate) fn take_pool(&mut self) -> Option<Box<IdlePool>> {
        self.stop_server();
        self.take_idle()
    }

    /// Puts a server over the pool, unless there is one. Returns whether there is one then.
    pub(crate) fn start_server(&mut self) -> bool {
        if let Some(idle) = self.take_idle() {
            self.stage = serve(self.alloc, idle);
        }
        matches!(&self.stage, Stage::Server(_))
    }

    /// Returns whether a pool is open, with a server over it or without.
    pub(crate) fn has_pool(&self) -> bool {
        matches!(&self.stage, Stage::Pool(_) | Stage::Server(_))
    }

    pub(crate) fn say(&mut self, text: &[u8]) -> Answer {
        self.report.add(text);
        Answer::Reported
    }

    /// Forgets what the last line left.
    pub(crate) fn clear(&mut self) {
        self.report.clear();
        self.values.clear();
        self.mismatch.clear();
        self.has_resumed = false;
    }

    /// Notes whether there was memory for what the reference model did.
    pub(crate) fn note_memory(&mut self, has_memory: bool) {
        self.has_memory = self.has_memory && has_memory;
    }

    /// Errors: `AllocError` if there was no memory for a part of the last line.
    pub(crate) fn whole(&self) -> Result<(), AllocError> {
        let is_whole = self.report.is_whole()
            && self.values.is_whole()
            && self.bytes.is_whole()
            && self.mismatch.is_whole();
        if self.has_memory && is_whole {
            Ok(())
        } else {
            Err(AllocError)
        }
    }

    /// Returns the disk, if there is one.
    pub(crate) fn disk(&self) -> Option<&ScriptDisk> {
        match &self.stage {
            Stage::Pool(idle) => Some(idle.pool.disk()),
            Stage::Server(server) => Some(server.pool().disk()),
            Stage::Disk(disk) => Some(disk),
            Stage::Empty => None,
        }
    }

    /// Returns how many calls the disk had.
    pub(crate) fn calls_now(&self) -> u64 {
        match self.disk() {
            Some(disk) => disk.calls(),
            None => 0,
        }
    }

    /// Returns the calls of the disk since the pool was opened.
    pub(crate) fn tally_now(&self) -> Tally {
        match self.disk() {
            Some(disk) => disk.tally(),
            None => Tally::NONE,
        }
    }

    pub(crate) fn is_failing(&self) -> bool {
        self.failing != NO_CALLS
    }

    // The reference model.

    pub(crate) fn reference(&self) -> Option<&Reference> {
        self.history.as_ref()?.now()
    }

    pub(crate) fn reference_mut(&mut self) -> Option<&mut Reference> {
        match &mut self.history {
            Some(history) => history.now_mut(),
            None => None,
        }
    }

    /// Begins with an empty pool.
    pub(crate) fn begin_reference(&mut self, geometry: Geometry) -> Result<(), AllocError> {
        let reference = Reference::empty(self.alloc, geometry);
        self.history = Some(History::only(self.alloc, reference)?);
        Ok(())
    }

    /// Notes that the reference model requires another answer. `text`: the text that the answer
    /// reports.
    pub(crate) fn require(&mut self, expected: Answer, text: &[u8]) {
        if self.mismatch.is_empty() {
            add_answer(&mut self.mismatch, expected, text);
        }
    }

    /// Notes why the last line is wrong.
    pub(crate) fn note(&mut self, why: &[u8]) {
        if self.mismatch.is_empty() {
            self.mismatch.add(why);
        }
    }

    fn counts_metadata(&self) -> bool {
        match self.reference() {
            Some(reference) => reference.counts_metadata(),
            None => true,
        }
    }

    /// Adds the pool's status line.
    pub(crate) fn add_status(&mut self, line: &mut Buffer) -> Answer {
        match &mut self.stage {
            Stage::Pool(idle) => {
                idle.add_status(line);
                Answer::Reported
            }
            Stage::Server(server) => {
                let answer = handle(self.alloc, server, Event::Status, &mut self.out);
                line.add(self.out.bytes());
                answer
            }
            _ => Answer::Misplaced,
        }
    }

    /// Lets the reference model know the metadata blocks in use, unless it counts them.
    pub(crate) fn take_used_metadata(&mut self) {
        if self.counts_metadata() {
            return;
        }
        let mut line = Buffer::new(self.alloc);
        self.add_status(&mut line);
        if let Some(reference) = self.reference_mut() {
            reference.set_reported_metadata(used_metadata_in(line.as_slice()));
        }
    }
}

/// Returns the answer of a call that reports the disk's failure.
pub(crate) fn fault_for(caller: Caller) -> Answer {
    tp_script::answer_of(Err(Refusal::Fault), caller)
}

/// Returns the answer of a call to a failed pool.
pub(crate) fn failed_for(caller: Caller) -> Answer {
    tp_script::answer_of(Err(Refusal::Failed), caller)
}
