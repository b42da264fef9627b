//! What is printed: a line for each script and each mismatch, and the counts of all.

use std::alloc::Global;
use tp_script::{Buffer, Line};

/// What was played.
#[derive(Clone, Copy)]
pub(crate) struct Totals {
    pub scripts: u64,
    pub cases: u64,
    /// Lines, disk calls and images of matrices, and random steps that were compared.
    pub checks: u64,
    pub failed: u64,
}

/// The report of scripts.
#[derive(Drop)]
pub(crate) struct Report {
    pub alloc: Global,
    pub text: Buffer,
    /// The name of the script that is played.
    script: Buffer,
    pub totals: Totals,
    /// The totals before this script.
    before: Totals,
}

impl Report {
    pub(crate) fn new(alloc: Global) -> Report {
        let totals = Totals {
            scripts: 0,
            cases: 0,
            checks: 0,
            failed: 0,
        };
        Report {
            alloc,
            text: Buffer::new(alloc),
            script: Buffer::new(alloc),
            totals,
            before: totals,
        }
    }

    pub(crate) fn begin_script(&mut self, name: &str) {
        self.before = self.totals;
        self.totals.scripts = self.totals.scripts.saturating_add(1);
        self.script.clear();
        self.script.add(name.as_bytes());
    }

    pub(crate) fn begin_case(&mut self) {
        self.totals.cases = self.totals.cases.saturating_add(1);
    }

    pub(crate) fn count_checks(&mut self, checks: u64) {
        self.totals.checks = self.totals.checks.saturating_add(checks);
    }

    fn count_failure(&mut self) {
        self.totals.failed = self.totals.failed.saturating_add(1);
    }

    /// Returns whether scripts were played, all lines were right, and there was memory for the
    /// report.
    pub(crate) fn is_right(&self) -> bool {
        self.totals.failed == 0 && self.totals.scripts > 0 && self.text.is_whole()
    }

    fn add_place(&mut self, number: usize) {
        self.text.add(self.script.as_slice());
        self.text.add(b":");
        self.text.add_number(number as u64);
        self.text.add(b": ");
    }

    /// Adds a mismatch.
    pub(crate) fn fail(&mut self, line: &Line<'_>, expected: &[u8], got: &[u8]) {
        self.count_failure();
        self.add_place(line.number);
        self.text.add(line.text);
        self.text.add(b"\n  expected ");
        self.text.add(expected);
        self.text.add(b"\n  got      ");
        self.text.add(got);
        self.text.add(b"\n");
    }

    /// Adds what became of a block of which an allocation may be refused.
    pub(crate) fn add_outcome(&mut self, line: &Line<'_>, word: &[u8]) {
        self.add_place(line.number);
        self.text.add(b"memory: ");
        self.text.add(word);
        self.text.add(b"\n");
    }

    /// Adds that a line is not one of a script.
    pub(crate) fn fail_line(&mut self, number: usize) {
        self.count_failure();
        self.add_place(number);
        self.text.add(b"not a line of a script\n");
    }

    fn add_count(&mut self, count: u64, word: &[u8]) {
        self.text.add_number(count);
        self.text.add(word);
    }

    /// Adds the counts of a script. One that checks nothing has failed.
    pub(crate) fn end_script(&mut self) {
        let checks = self.totals.checks.saturating_sub(self.before.checks);
        if checks == 0 {
            self.count_failure();
        }
        self.text.add(self.script.as_slice());
        self.text.add(b": ");
        let cases = self.totals.cases.saturating_sub(self.before.cases);
        self.add_count(cases, b" cases, ");
        self.add_count(checks, b" checks\n");
    }

    /// Adds the counts of all scripts.
    pub(crate) fn end(&mut self) {
        let totals = self.totals;
        self.add_count(totals.scripts, b" scripts, ");
        self.add_count(totals.cases, b" cases, ");
        self.add_count(totals.checks, b" checks, ");
        self.add_count(totals.failed, b" failed\n");
    }
}
