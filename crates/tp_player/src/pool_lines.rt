//! Lines on the pool.

use crate::compare::{Detail, Source};
use crate::idle::{IdlePool, MOST_SECTORS, NUMBERS};
use crate::server::handle;
use crate::stage::Stage;
use crate::world::World;
use tp_hub::Event;
use tp_model::{Refusal, Slots};
use tp_msg::{Message, read_message};
use tp_reference::Step;
use tp_script::{
    Answer, Buffer, Caller, Operation, Pool as PoolLine, Request, add_fill, add_runs, add_values,
    answer_of,
};

/// Returns the answer of a call that reported a text if it succeeded.
fn report_answer(outcome: Result<(), Refusal>) -> Answer {
    match outcome {
        Ok(()) => Answer::Reported,
        Err(reason) => Answer::Failed(reason),
    }
}

/// Adds the numbers of all volumes of a pool, or their blocks.
fn add_volumes(idle: &mut IdlePool, are_sizes: bool, list: &mut Buffer) -> Result<(), Refusal> {
    let mut from = 0;
    for _ in 0..65_536 {
        let Some(id) = idle.next_id(from)? else {
            break;
        };
        let number = if are_sizes {
            idle.volume_blocks(id)?
        } else {
            id
        };
        list.add_to_list(number as u64);
        from = id.saturating_add(1);
    }
    list.end_list();
    Ok(())
}

/// Adds the values of a volume's first sectors, as many as the pool's own volumes have. Returns
/// whether each has one.
fn add_first_values(
    idle: &mut IdlePool,
    id: u32,
    bytes: &mut Buffer,
    values: &mut Buffer,
) -> Result<bool, Refusal> {
    idle.read(id, 0, bytes.as_mut_slice())?;
    Ok(add_values(values, 0, bytes.as_slice()))
}

/// Adds the values of all volumes, in the order of their numbers. Returns whether each sector has
/// one.
fn add_contents(
    idle: &mut IdlePool,
    bytes: &mut Buffer,
    values: &mut Buffer,
) -> Result<bool, Refusal> {
    bytes.clear();
    add_fill(bytes, 0, idle.volume_sectors().min(MOST_SECTORS), 0);
    let mut have_values = true;
    let mut from = 0;
    for _ in 0..65_536 {
        let Some(id) = idle.next_id(from)? else {
            break;
        };
        have_values &= add_first_values(idle, id, bytes, values)?;
        from = id.saturating_add(1);
    }
    Ok(have_values)
}

/// Adds the numbers of mapped blocks.
fn add_slots(slots: &Slots, list: &mut Buffer) {
    for slot in slots.as_slice() {
        list.add_to_list(slot.block().number() as u64);
    }
    list.end_list();
}

impl World {
    pub(crate) fn report_status(&mut self) -> Answer {
        self.take_used_metadata();
        let mut line = Buffer::new(self.alloc);
        let answer = self.add_status(&mut line);
        self.note_memory(line.is_whole());
        self.report.add(line.as_slice());
        if answer != Answer::Misplaced {
            self.compare_status(answer);
        }
        answer
    }

    /// Handles an event of the server that reports a line.
    fn report_event(&mut self, event: Event<'_>) -> Answer {
        let Stage::Server(server) = &mut self.stage else {
            return Answer::Misplaced;
        };
        let answer = handle(self.alloc, server, event, &mut self.out);
        self.report.add(self.out.bytes());
        answer
    }

    /// Compares a text about a volume, if the line fits here and the volume has a number of one.
    fn compare_reported(&mut self, id: u32, answer: Answer, detail: Detail) -> Answer {
        if answer != Answer::Misplaced && id < NUMBERS {
            self.compare_volume(id, answer, detail);
        }
        answer
    }

    fn report_thin(&mut self, id: u32) -> Answer {
        let answer = match &mut self.stage {
            Stage::Pool(idle) => report_answer(idle.add_thin(id, &mut self.report)),
            _ => self.report_event(Event::ThinStatus(id)),
        };
        self.compare_reported(id, answer, Detail::Status)
    }

    /// Reports the blocks of a volume, or by a server the bytes of the volume and of a block.
    fn report_size(&mut self, id: u32) -> Answer {
        let Stage::Pool(idle) = &mut self.stage else {
            let answer = self.report_event(Event::Size(id));
            return self.compare_reported(id, answer, Detail::Bytes);
        };
        let answer = match idle.volume_blocks(id) {
            Ok(blocks) => {
                self.report.add_number(blocks as u64);
                Answer::Reported
            }
            Err(reason) => Answer::Failed(reason),
        };
        self.compare_volume(id, answer, Detail::Blocks);
        answer
    }

    /// Reports the numbers of all volumes.
    fn report_volumes(&mut self) -> Answer {
        let Stage::Pool(idle) = &mut self.stage else {
            return Answer::Misplaced;
        };
        let answer = report_answer(add_volumes(idle, false, &mut self.report));
        if answer == Answer::Reported {
            self.compare_volumes(answer);
        }
        answer
    }

    /// Reports the blocks of all volumes.
    fn report_sizes(&mut self) -> Answer {
        match &mut self.stage {
            Stage::Pool(idle) => report_answer(add_volumes(idle, true, &mut self.report)),
            _ => Answer::Misplaced,
        }
    }

    /// Reports the values of all volumes.
    fn report_contents(&mut self) -> Answer {
        let Stage::Pool(idle) = &mut self.stage else {
            return Answer::Misplaced;
        };
        match add_contents(idle, &mut self.bytes, &mut self.values) {
            Ok(true) => {
                add_runs(&mut self.report, self.values.as_slice());
                Answer::Reported
            }
            Ok(false) => Answer::Strange,
            Err(reason) => Answer::Failed(reason),
        }
    }

    /// Compares a step that fits here.
    fn compare_placed(&mut self, step: &Step<'_>, answer: Answer, commits: bool) -> Answer {
        if answer != Answer::Misplaced {
            self.compare_step(step, answer, Caller::Pool, commits);
        }
        answer
    }

    fn send(&mut self, line: &[u8], message: &Message) -> Answer {
        let answer = match &mut self.stage {
            Stage::Pool(idle) => answer_of(idle.send(message), Caller::Pool),
            _ => self.report_event(Event::Message(line)),
        };
        self.compare_placed(&Step::Message(message), answer, true)
    }

    /// Makes the change of a message, which the next commit makes durable.
    fn change(&mut self, message: &Message) -> Answer {
        let answer = match &mut self.stage {
            Stage::Pool(idle) => answer_of(idle.change(message), Caller::Pool),
            _ => Answer::Misplaced,
        };
        self.compare_placed(&Step::Message(message), answer, false)
    }

    /// Sends a message, or makes only its change.
    fn play_message(&mut self, line: &[u8], commits: bool) -> Answer {
        self.take_used_metadata();
        match read_message(line) {
            Ok(message) if commits => self.send(line, &message),
            Ok(message) => self.change(&message),
            Err(reason) => Answer::Failed(reason),
        }
    }

    fn play_flush(&mut self) -> Answer {
        let answer = match &mut self.stage {
            Stage::Pool(idle) => answer_of(idle.flush(), Caller::Pool),
            _ => self.report_event(Event::Flush),
        };
        self.compare_placed(&Step::Flush, answer, true)
    }

    /// Reports the values of sectors that were read.
    fn report_values(&mut self, sector: u64) -> Answer {
        if !add_values(&mut self.values, sector, self.bytes.as_slice()) {
            return Answer::Strange;
        }
        add_runs(&mut self.report, self.values.as_slice());
        Answer::Reported
    }

    /// Makes the buffer one of zeros, for a read of this many sectors.
    fn make_room(&mut self, count: u64) {
        self.bytes.clear();
        add_fill(&mut self.bytes, 0, count.min(MOST_SECTORS), 0);
    }

    fn play_read(&mut self, request: &Request, source: Source) -> Answer {
        self.make_room(request.count);
        let Stage::Pool(idle) = &mut self.stage else {
            return Answer::Misplaced;
        };
        let (volume, sector) = (request.volume, request.sector);
        let result = match source {
            Source::Volume => idle.read(volume, sector, self.bytes.as_mut_slice()),
            Source::Snapshot => idle.read_snapshot(volume, sector, self.bytes.as_mut_slice()),
        };
        let answer = match result {
            Ok(()) => self.report_values(sector),
            Err(reason) => Answer::Failed(reason),
        };
        self.compare_read(source, request, answer, Caller::Pool);
        answer
    }

    /// Reads from memory: the values of an ordinary read, or `nothing`.
    fn play_shared_read(&mut self, request: &Request) -> Answer {
        self.make_room(request.count);
        let Stage::Pool(idle) = &self.stage else {
            return Answer::Misplaced;
        };
        if !idle.read_shared(request.volume, request.sector, self.bytes.as_mut_slice()) {
            return self.say(b"nothing");
        }
        let answer = self.report_values(request.sector);
        self.compare_read(Source::Volume, request, answer, Caller::Pool);
        answer
    }

    fn play_request(&mut self, request: &Request) -> Answer {
        if let Operation::Read { .. } = request.operation {
            return self.play_read(request, Source::Volume);
        }
        self.take_used_metadata();
        self.bytes.clear();
        if let Operation::Write { value, .. } = request.operation {
            let count = request.count.min(MOST_SECTORS);
            add_fill(&mut self.bytes, request.sector, count, value);
        }
        let Stage::Pool(idle) = &mut self.stage else {
            return Answer::Misplaced;
        };
        let result = idle.perform(request, self.bytes.as_slice());
        let answer = answer_of(result, Caller::Pool);
        let commits = request.operation.has_fua() && request.count > 0;
        self.compare_step(&Step::Request(request), answer, Caller::Pool, commits);
        answer
    }

    /// Lists mapped blocks, into a buffer that has an earlier list.
    fn play_walk(&mut self, id: u32, from: u32) -> Answer {
        let Stage::Pool(idle) = &mut self.stage else {
            return Answer::Misplaced;
        };
        let mut slots = Slots::new();
        let _ = idle.walk(id, 0, &mut slots);
        let answer = report_answer(idle.walk(id, from, &mut slots));
        if answer == Answer::Reported {
            add_slots(&slots, &mut self.report);
        }
        self.compare_walk(id, from, answer);
        answer
    }

    /// Lists mapped blocks from memory, or reports `nothing`.
    fn play_shared_walk(&mut self, id: u32, from: u32) -> Answer {
        let Stage::Pool(idle) = &self.stage else {
            return Answer::Misplaced;
        };
        let mut slots = Slots::new();
        if !idle.walk_shared(id, from, &mut slots) {
            return self.say(b"nothing");
        }
        add_slots(&slots, &mut self.report);
        self.compare_walk(id, from, Answer::Reported);
        Answer::Reported
    }

    /// Reports a page of a listing, which a server makes.
    fn play_page(&mut self, ids: (u32, Option<u32>), from: u32) -> Answer {
        if !self.start_server() {
            return Answer::Misplaced;
        }
        let event = match ids {
            (id, None) => Event::Map(id, from),
            (id, Some(other)) => Event::Delta(id, other, from),
        };
        let answer = self.report_event(event);
        if matches!(
            answer,
            Answer::Reported | Answer::Failed(Refusal::NoSuchDevice)
        ) {
            self.compare_page(ids, from, answer);
        }
        answer
    }

    fn play_pool_read(&mut self, line: &PoolLine<'_>) -> Answer {
        match *line {
            PoolLine::ReadSnapshot(request) => self.play_read(&request, Source::Snapshot),
            PoolLine::ReadShared(request) => self.play_shared_read(&request),
            PoolLine::Walk(id, from) => self.play_walk(id, from),
            PoolLine::WalkShared(id, from) => self.play_shared_walk(id, from),
            PoolLine::Map(id, from) => self.play_page((id, None), from),
            PoolLine::Delta(id, other, from) => self.play_page((id, Some(other)), from),
            _ => Answer::Misplaced,
        }
    }

    /// Plays a line on the pool.
    pub(crate) fn play_pool(&mut self, line: &PoolLine<'_>) -> Answer {
        match *line {
            PoolLine::Status => self.report_status(),
            PoolLine::Thin(id) => self.report_thin(id),
            PoolLine::Size(id) => self.report_size(id),
            PoolLine::Volumes => self.report_volumes(),
            PoolLine::Sizes => self.report_sizes(),
            PoolLine::Contents => self.report_contents(),
            PoolLine::Message(text) => self.play_message(text, true),
            PoolLine::Change(text) => self.play_message(text, false),
            PoolLine::Request(request) => self.play_request(&request),
            PoolLine::Flush => self.play_flush(),
            _ => self.play_pool_read(line),
        }
    }
}
