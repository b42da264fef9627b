//! Lines on the disk and the image, and those that begin or end a lifetime of the pool.

use crate::disk::{ScriptDisk, Tally};
use crate::image::{change_image, check_answer, report_byte, report_bytes};
use crate::look::look;
use crate::server::{CONNECTIONS, Connection};
use crate::stage::{Opening, Stage, begin, clear_needs_check, close};
use crate::world::{NO_CALLS, World};
use std::alloc::AllocError;
use tp_disk::Disk;
use tp_model::{Geometry, Refusal};
use tp_reference::{Found, History, Reference};
use tp_script::{Answer, Caller, CrashImage, Disk as DiskLine, ImageChange, answer_of};
use tp_served::Room;

/// The most metadata blocks whose writes a line reports.
const MOST_BLOCKS: u64 = 64;

impl World {
    fn put_disk(&mut self, sectors: u64) -> Result<(), AllocError> {
        self.stage = Stage::Empty;
        let disk = ScriptDisk::new(self.alloc, sectors)?;
        self.stage = Stage::Disk(Box::new(self.alloc, disk)?);
        Ok(())
    }

    fn begin_disk(&mut self, sectors: u64) -> Result<Answer, AllocError> {
        self.put_disk(sectors)?;
        Ok(Answer::Done)
    }

    /// Begins a lifetime of the pool on the disk.
    fn begin(&mut self, opening: Opening) -> Answer {
        let Some(mut disk) = self.take_disk() else {
            return Answer::Misplaced;
        };
        disk.begin(opening.border(), self.failing);
        let (stage, result) = begin(self.alloc, disk, &opening, self.room);
        self.stage = stage;
        if result.is_ok() {
            self.has_failed = false;
            self.border = opening.border();
            self.connections = [Connection::CLOSED; CONNECTIONS];
            self.tally = Tally::NONE;
            self.writes.clear();
        }
        answer_of(result, Caller::Pool)
    }

    /// Formats the disk, or one of the pool's size if there is none.
    fn format(&mut self, geometry: Geometry) -> Result<Answer, AllocError> {
        if !matches!(&self.stage, Stage::Disk(_)) {
            self.put_disk(geometry.image_sectors())?;
        }
        let answer = self.begin(Opening::Format(geometry));
        if answer == Answer::Done {
            self.begin_reference(geometry)?;
        } else if self.takes_fault(answer) {
            self.take_failed_format(geometry)?;
        }
        Ok(answer)
    }

    fn play_format(&mut self, sizes: [u64; 4]) -> Result<Answer, AllocError> {
        let [block, volume, metadata, data_blocks] = sizes;
        match Geometry::new(block, volume, metadata, data_blocks) {
            Ok(geometry) => self.format(geometry),
            Err(reason) => Ok(Answer::Failed(reason)),
        }
    }

    /// The disk failed while it was formatted: a crash may leave the old pool, none, or the new
    /// one.
    fn take_failed_format(&mut self, geometry: Geometry) -> Result<(), AllocError> {
        if let Some(history) = &mut self.history {
            history.allow(Reference::empty(self.alloc, geometry))?;
            history.allow_blank();
        }
        Ok(())
    }

    /// Opens the pool without a look at it.
    pub(crate) fn open_unseen(&mut self) -> Answer {
        self.begin(Opening::Open(self.border))
    }

    pub(crate) fn open(&mut self, is_read_only: bool) -> Result<Answer, AllocError> {
        let answer = self.begin(if is_read_only {
            Opening::ReadOnly(self.border)
        } else {
            Opening::Open(self.border)
        });
        if answer != Answer::Done {
            return Ok(answer);
        }
        if self.is_between_states() {
            return self.look_at_left();
        }
        if let Some(reference) = self.reference_mut() {
            reference.reopen(is_read_only);
        }
        Ok(Answer::Done)
    }

    pub(crate) fn close(&mut self) -> Answer {
        let Some(idle) = self.take_pool() else {
            return Answer::Misplaced;
        };
        let (stage, result) = close(self.alloc, idle);
        self.stage = stage;
        self.connections = [Connection::CLOSED; CONNECTIONS];
        let answer = answer_of(result, Caller::Pool);
        self.compare_close(answer);
        answer
    }

    /// Returns the disk that a crash leaves now.
    pub(crate) fn left(&self, image: CrashImage) -> Result<Option<Box<ScriptDisk>>, AllocError> {
        match self.disk() {
            Some(disk) => Ok(Some(disk.left(self.alloc, image)?)),
            None => Ok(None),
        }
    }

    /// Returns all that the pool shows, and of the metadata snapshot the volumes with these
    /// numbers.
    pub(crate) fn look_at(&mut self, ids: &[u32]) -> Result<Option<Box<Found>>, AllocError> {
        let Some(idle) = self.take_pool() else {
            return Ok(None);
        };
        let mut found = Box::new(self.alloc, Found::new(self.alloc))?;
        self.stage = look(self.alloc, idle, ids, &mut self.out, &mut found)?;
        Ok(Some(found))
    }

    /// The reference model becomes the state that was found after a crash. Returns whether a crash
    /// may leave that.
    fn take_found(&mut self, found: &Found) -> Result<bool, AllocError> {
        let state = match &self.history {
            Some(history) => history.find(found)?,
            None => return Ok(true),
        };
        let Some(state) = state else {
            return Ok(false);
        };
        self.history = Some(History::only(self.alloc, state)?);
        Ok(true)
    }

    fn crash(&mut self, image: CrashImage) -> Result<Answer, AllocError> {
        match self.left(image)? {
            Some(disk) => self.open_left(disk),
            None => Ok(Answer::Misplaced),
        }
    }

    /// Opens the disk that a crash left: it must be clean, and show a state that a crash may leave.
    pub(crate) fn open_left(&mut self, disk: Box<ScriptDisk>) -> Result<Answer, AllocError> {
        let checked = self.check_left(disk);
        if checked != Answer::Done {
            return Ok(checked);
        }
        let opened = self.open_unseen();
        if opened != Answer::Done || self.history.is_none() {
            return Ok(opened);
        }
        self.look_at_left()
    }

    /// Goes on with the disk that a crash left. Returns what a check of it finds.
    pub(crate) fn check_left(&mut self, disk: Box<ScriptDisk>) -> Answer {
        let mut disk = disk;
        let checked = check_answer(self.alloc, &mut disk);
        self.stage = Stage::Disk(disk);
        self.failing = NO_CALLS;
        checked
    }

    /// Returns whether the pool may be in one of several states, since it failed.
    fn is_between_states(&self) -> bool {
        match &self.history {
            Some(history) => history.has_several_states(),
            None => false,
        }
    }

    /// Returns the numbers of the volumes that a metadata snapshot may have now.
    pub(crate) fn snapshot_ids(&self) -> Result<Vec<u32>, AllocError> {
        match &self.history {
            Some(history) => history.snapshot_ids(),
            None => Ok(Vec::new(self.alloc)),
        }
    }

    /// The reference model becomes the state that the pool shows, which must be one that a crash
    /// may leave.
    fn look_at_left(&mut self) -> Result<Answer, AllocError> {
        let ids = self.snapshot_ids()?;
        let Some(found) = self.look_at(&ids)? else {
            return Ok(Answer::Misplaced);
        };
        if !self.take_found(&found)? {
            self.note(b"a state that a crash may leave, in place of ");
            self.mismatch.add(found.line.as_slice());
        }
        Ok(Answer::Done)
    }

    /// Flushes the disk of a closed pool, as an opening of a file does.
    fn sync(&mut self) -> Answer {
        match &mut self.stage {
            Stage::Disk(disk) => match disk.flush() {
                Ok(()) => Answer::Done,
                Err(_) => Answer::Failed(Refusal::Fault),
            },
            _ => Answer::Misplaced,
        }
    }

    /// Returns what a check finds of the image, or of a copy of it as a pool that is open last
    /// wrote it.
    fn checked(&mut self) -> Result<Answer, AllocError> {
        if let Stage::Disk(disk) = &mut self.stage {
            return Ok(check_answer(self.alloc, disk));
        }
        match self.left(CrashImage::Newest)? {
            Some(mut copy) => Ok(check_answer(self.alloc, &mut copy)),
            None => Ok(Answer::Misplaced),
        }
    }

    fn check(&mut self) -> Result<Answer, AllocError> {
        match self.checked()? {
            Answer::Done => Ok(self.say(b"clean")),
            other => Ok(other),
        }
    }

    /// Clears the flag by which a closed pool needs a check. If the disk fails, a crash may leave
    /// the flag or not.
    fn clear_flag(&mut self) -> Result<Answer, AllocError> {
        let Stage::Disk(disk) = &mut self.stage else {
            return Ok(Answer::Misplaced);
        };
        disk.begin(0, self.failing);
        let answer = answer_of(clear_needs_check(self.alloc, disk), Caller::Pool);
        let has_failed = self.takes_fault(answer);
        if has_failed || answer == Answer::Done {
            self.take_cleared(answer == Answer::Done)?;
        }
        Ok(answer)
    }

    fn take_cleared(&mut self, is_durable: bool) -> Result<(), AllocError> {
        let Some(history) = &mut self.history else {
            return Ok(());
        };
        history.allow_cleared()?;
        if is_durable {
            history.commit();
        }
        Ok(())
    }

    /// Fails disk calls, counted from now on.
    fn fail(&mut self, first: u64, last: u64) -> Answer {
        let calls = self.calls_now();
        self.failing = if first == 0 {
            NO_CALLS
        } else {
            (calls.saturating_add(first), calls.saturating_add(last))
        };
        let (first, last) = self.failing;
        if let Some(disk) = self.disk() {
            disk.fail(first, last);
        }
        Answer::Done
    }

    /// Reports the disk's calls since the last such line, and of a disk without a pool all that it
    /// ever had.
    fn report_calls(&mut self) -> Answer {
        if let Stage::Disk(disk) = &self.stage {
            self.report.add_number(disk.calls());
            return self.say(b" calls");
        }
        let now = self.tally_now();
        now.since(self.tally).add_to(&mut self.report);
        self.tally = now;
        Answer::Reported
    }

    fn writes_of(&self, block: u64) -> u64 {
        match self.disk() {
            Some(disk) => disk.writes(block.saturating_mul(8)),
            None => 0,
        }
    }

    /// Reports how often each metadata block of a range was written since the last such line.
    fn report_writes(&mut self, first: u64, last: u64) -> Result<Answer, AllocError> {
        let last = last.min(first.saturating_add(MOST_BLOCKS));
        let mut now = Vec::new(self.alloc);
        for block in first..last.saturating_add(1) {
            let writes = self.writes_of(block);
            let before = self.writes.get(now.len()).copied().unwrap_or(0);
            self.report.add_to_list(writes.saturating_sub(before));
            now.push(writes)?;
        }
        self.writes = now;
        Ok(Answer::Reported)
    }

    fn change_image(&mut self, change: &ImageChange) -> Answer {
        match &mut self.stage {
            Stage::Disk(disk) => match change_image(disk, change) {
                Ok(()) => Answer::Done,
                Err(_) => Answer::Misplaced,
            },
            _ => Answer::Misplaced,
        }
    }

    /// Leaves the first sectors of the disk.
    fn truncate(&mut self, sectors: u64) -> Result<Answer, AllocError> {
        let Stage::Disk(disk) = &self.stage else {
            return Ok(Answer::Misplaced);
        };
        let disk = disk.truncated(self.alloc, sectors)?;
        self.stage = Stage::Disk(disk);
        Ok(Answer::Done)
    }

    /// Reports on the bytes of the image.
    fn play_image(&mut self, line: &DiskLine) -> Answer {
        let Stage::Disk(disk) = &mut self.stage else {
            return Answer::Misplaced;
        };
        let alloc = self.alloc;
        let report = &mut self.report;
        let has_reported = match *line {
            DiskLine::Bytes(part) => report_bytes(disk, part, report),
            DiskLine::Byte(change) => report_byte(alloc, disk, change, report),
            _ => false,
        };
        if has_reported {
            Answer::Reported
        } else {
            Answer::Misplaced
        }
    }

    fn set_room(&mut self, changed: u64, read: u64) -> Answer {
        self.room = Room {
            changed: u16::try_from(changed).unwrap_or(u16::MAX),
            read: u16::try_from(read).unwrap_or(u16::MAX),
        };
        Answer::Done
    }

    /// Plays a line that reports or changes how the disk is used.
    fn play_disk_state(&mut self, line: &DiskLine) -> Result<Answer, AllocError> {
        Ok(match *line {
            DiskLine::Caches(changed, read) => self.set_room(changed, read),
            DiskLine::Fail(first, last) => self.fail(first, last),
            DiskLine::Calls => self.report_calls(),
            DiskLine::MetadataWrites(first, last) => self.report_writes(first, last)?,
            DiskLine::Change(change) => self.change_image(&change),
            DiskLine::Truncate(sectors) => self.truncate(sectors)?,
            DiskLine::NoReference => {
                self.history = None;
                Answer::Done
            }
            _ => self.play_image(line),
        })
    }

    /// Plays a line on the disk.
    pub(crate) fn play_disk(&mut self, line: &DiskLine) -> Result<Answer, AllocError> {
        match *line {
            DiskLine::New(sectors) => self.begin_disk(sectors),
            DiskLine::Format(sizes) => self.play_format(sizes),
            DiskLine::Open => self.open(false),
            DiskLine::OpenReadOnly => self.open(true),
            DiskLine::Close => Ok(self.close()),
            DiskLine::Crash(image) => self.crash(image),
            DiskLine::Sync => Ok(self.sync()),
            DiskLine::Check => self.check(),
            DiskLine::ClearNeedsCheck => self.clear_flag(),
            _ => self.play_disk_state(line),
        }
    }
}
