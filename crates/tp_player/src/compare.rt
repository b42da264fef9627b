//! Compares the answers of lines with the reference model.

use crate::world::{World, failed_for, fault_for};
use std::alloc::AllocError;
use tp_model::Refusal;
use tp_reference::{Reference, Step, Volume};
use tp_script::{Answer, Buffer, Caller, Request, add_runs, answer_of};

/// The source of a read: a volume, or its copy in the metadata snapshot.
#[derive(Clone, Copy, PartialEq, Eq)]
pub(crate) enum Source {
    Volume,
    Snapshot,
}

/// A text about a volume.
#[derive(Clone, Copy)]
pub(crate) enum Detail {
    /// The status line.
    Status,
    /// The number of blocks.
    Blocks,
    /// The bytes of the volume and of a block.
    Bytes,
}

/// Returns the values that a read of the reference model gives.
fn values_of<'a>(reference: &'a Reference, source: Source, request: &Request) -> Option<&'a [u8]> {
    let volume = match source {
        Source::Volume => reference.volume(request.volume)?,
        Source::Snapshot => reference.in_snapshot(request.volume)?,
    };
    let count = usize::try_from(request.count).unwrap_or(usize::MAX);
    volume.values_at(request.sector, count)
}

/// Adds a text about a volume of the reference model.
fn add_detail(out: &mut Buffer, reference: &Reference, volume: &Volume, detail: Detail) {
    match detail {
        Detail::Status => out.add_text(reference.volume_line(volume)),
        Detail::Blocks => out.add_number(volume.blocks() as u64),
        Detail::Bytes => out.add_text(reference.size_line(volume)),
    }
}

impl World {
    /// Returns a refusal of the reference model, and notes whether there was memory to decide on
    /// it.
    fn known(&mut self, refusal: Result<Option<Refusal>, AllocError>) -> Option<Refusal> {
        match refusal {
            Ok(refusal) => refusal,
            Err(_) => {
                self.note_memory(false);
                None
            }
        }
    }

    fn step_refusal(&self, step: &Step<'_>) -> Result<Option<Refusal>, AllocError> {
        match &self.history {
            Some(history) => history.refusal(step),
            None => Ok(None),
        }
    }

    fn expected(&self, refusal: Option<Refusal>, success: Answer, caller: Caller) -> Answer {
        match refusal {
            _ if self.has_failed => failed_for(caller),
            Some(reason) => answer_of(Err(reason), caller),
            None => success,
        }
    }

    /// Returns whether an answer reports a failure of the disk that the case asked for.
    fn is_fault(&self, answer: Answer, caller: Caller) -> bool {
        !self.has_failed && self.is_failing() && answer == fault_for(caller)
    }

    /// The reference model takes a step that succeeded.
    fn take_step(&mut self, step: &Step<'_>, commits: bool) {
        let taken = match &mut self.history {
            Some(history) if commits => history.take_committed(step),
            Some(history) => history.take(step),
            None => Ok(()),
        };
        self.note_memory(taken.is_ok());
    }

    /// The disk failed in a step: the pool has failed, and a crash may leave the state before it or
    /// after it.
    fn take_failed_step(&mut self, step: &Step<'_>) {
        self.has_failed = true;
        self.faults.changes = self.faults.changes.saturating_add(1);
        let taken = match &mut self.history {
            Some(history) => history.take_failed(step),
            None => Ok(()),
        };
        self.note_memory(taken.is_ok());
    }

    fn run_out(&mut self) {
        if let Some(history) = &mut self.history {
            history.run_out();
        }
    }

    /// The answer of a step is the one that the reference model requires.
    fn take_answered(&mut self, step: &Step<'_>, refusal: Option<Refusal>, commits: bool) {
        match refusal {
            _ if self.has_failed => {}
            None => self.take_step(step, commits),
            Some(Refusal::NoMetadataSpace) => self.run_out(),
            Some(_) => {}
        }
    }

    /// Compares the answer of a call that changes the pool or commits.
    pub(crate) fn compare_step(
        &mut self,
        step: &Step<'_>,
        answer: Answer,
        caller: Caller,
        commits: bool,
    ) {
        if self.history.is_none() {
            return;
        }
        let refusal = self.step_refusal(step);
        let refusal = self.known(refusal);
        let expected = self.expected(refusal, Answer::Done, caller);
        if answer == expected {
            self.take_answered(step, refusal, commits);
        } else if self.is_fault(answer, caller) {
            self.take_failed_step(step);
        } else {
            self.require(expected, b"");
        }
    }

    fn read_refusal(
        &self,
        source: Source,
        request: &Request,
    ) -> Result<Option<Refusal>, AllocError> {
        match (self.reference(), source) {
            (Some(reference), Source::Volume) => reference.request_refusal(request),
            (Some(reference), Source::Snapshot) => reference.snapshot_refusal(request.volume),
            (None, _) => Ok(None),
        }
    }

    /// Returns whether a read gave the values of the reference model.
    fn has_right_values(&self, source: Source, request: &Request) -> bool {
        match self.reference() {
            Some(reference) => {
                values_of(reference, source, request) == Some(self.values.as_slice())
            }
            None => true,
        }
    }

    fn require_values(&mut self, source: Source, request: &Request, expected: Answer) {
        let mut text = Buffer::new(self.alloc);
        if let Some(reference) = self.reference() {
            add_runs(
                &mut text,
                values_of(reference, source, request).unwrap_or(&[]),
            );
        }
        self.require(expected, text.as_slice());
    }

    /// Compares the answer of a read, and the values that it gave. Returns whether the disk failed
    /// in it.
    pub(crate) fn compare_read(
        &mut self,
        source: Source,
        request: &Request,
        answer: Answer,
        caller: Caller,
    ) -> bool {
        if self.history.is_none() {
            return false;
        }
        let refusal = self.read_refusal(source, request);
        let refusal = self.known(refusal);
        let expected = self.expected(refusal, Answer::Reported, caller);
        let is_right = answer != Answer::Reported || self.has_right_values(source, request);
        if answer == expected && is_right {
            return false;
        }
        let is_fault = self.is_fault(answer, caller);
        if is_fault {
            self.faults.reads = self.faults.reads.saturating_add(1);
        } else {
            self.require_values(source, request, expected);
        }
        is_fault
    }

    /// Requires this answer, unless there is no reference model.
    pub(crate) fn compare_answer(&mut self, answer: Answer, expected: Answer) {
        if self.history.is_some() && answer != expected {
            self.require(expected, b"");
        }
    }

    /// Requires that a call failed because there is no such volume.
    fn compare_missing(&mut self, answer: Answer) {
        self.compare_answer(answer, Answer::Failed(Refusal::NoSuchDevice));
    }

    /// Requires that a call reported this text.
    pub(crate) fn compare_text(&mut self, answer: Answer, text: &Buffer) {
        self.note_memory(text.is_whole());
        if answer != Answer::Reported || self.report.as_slice() != text.as_slice() {
            self.require(Answer::Reported, text.as_slice());
        }
    }

    /// Compares a pool's status line.
    pub(crate) fn compare_status(&mut self, answer: Answer) {
        let mut line = Buffer::new(self.alloc);
        match self.reference() {
            Some(_) if self.has_failed => line.add(b"Fail"),
            Some(reference) => line.add_text(reference.line_for(self.report.as_slice())),
            None => return,
        }
        self.compare_text(answer, &line);
    }

    /// Compares a text about a volume.
    pub(crate) fn compare_volume(&mut self, id: u32, answer: Answer, detail: Detail) {
        let mut text = Buffer::new(self.alloc);
        let exists = match self.reference() {
            None => return,
            Some(_) if self.has_failed => return,
            Some(reference) => match reference.volume(id) {
                Some(volume) => {
                    add_detail(&mut text, reference, volume, detail);
                    true
                }
                None => false,
            },
        };
        if exists {
            self.compare_text(answer, &text);
        } else {
            self.compare_missing(answer);
        }
    }

    /// Compares the numbers of all volumes.
    pub(crate) fn compare_volumes(&mut self, answer: Answer) {
        if let Some(reference) = self.reference() {
            let list = reference.volume_numbers();
            self.compare_text(answer, &list);
        }
    }

    /// Compares the mapped blocks that a walk listed: those of one leaf, which are the first of the
    /// volume's.
    pub(crate) fn compare_walk(&mut self, id: u32, from: u32, answer: Answer) {
        let Some(reference) = self.reference() else {
            return;
        };
        let Some(volume) = reference.volume(id) else {
            return self.compare_missing(answer);
        };
        let list = reference.mapped_blocks(volume, from);
        self.note_memory(list.is_whole());
        let is_first = list.as_slice().starts_with(self.report.as_slice());
        if answer != Answer::Reported || !is_first {
            self.require(Answer::Reported, list.as_slice());
        }
    }

    /// Compares the one page of a listing: the mapped blocks of a volume, or those in which two
    /// volumes differ.
    pub(crate) fn compare_page(&mut self, ids: (u32, Option<u32>), from: u32, answer: Answer) {
        let page = match self.reference() {
            Some(reference) if reference.counts_metadata() => reference.page(ids, from),
            _ => return,
        };
        match page {
            Some(page) if self.report.as_slice().ends_with(b"end") => {
                self.compare_text(answer, &page);
            }
            Some(_) => {}
            None => self.compare_missing(answer),
        }
    }

    /// Compares the answer of a close.
    pub(crate) fn compare_close(&mut self, answer: Answer) {
        let expected = self.expected(None, Answer::Done, Caller::Pool);
        if answer == Answer::Done && answer == expected {
            self.commit();
        } else if self.is_fault(answer, Caller::Pool) {
            self.faults.closings = self.faults.closings.saturating_add(1);
        } else {
            self.compare_answer(answer, expected);
        }
    }

    fn commit(&mut self) {
        if let Some(history) = &mut self.history {
            history.commit();
        }
    }

    /// Compares the answer of a call that formats a disk or clears a flag of a closed pool. Returns
    /// whether it reports a fault.
    pub(crate) fn takes_fault(&mut self, answer: Answer) -> bool {
        let is_fault = self.is_fault(answer, Caller::Pool);
        if is_fault {
            self.faults.changes = self.faults.changes.saturating_add(1);
        }
        is_fault
    }
}
