//! What a matrix counts, and where it found the first wrong image or answer.

use crate::lifetimes::Ending;
use crate::world::Faults;
use std::alloc::Global;
use tp_reference::Found;
use tp_script::Buffer;

/// The kind of a matrix.
#[derive(Clone, Copy, PartialEq, Eq)]
pub(crate) enum Kind {
    /// All disk calls fail from one on.
    Crashes,
    /// One disk call fails.
    Faults,
}

/// An image that was looked at.
#[derive(Drop)]
pub(crate) struct Seen {
    pub checksum: u64,
    pub found: Box<Found>,
    /// The images of the second lifetime on this one, if it was played.
    pub later: Option<u64>,
}

/// The counts of a matrix.
#[derive(Drop)]
pub(crate) struct Counts {
    pub kind: Kind,
    /// The disk calls of the workload.
    pub calls: u64,
    pub images: u64,
    /// The images of second lifetimes. Equal images are played once, and counted each time.
    pub later: u64,
    /// The images of both that differ.
    pub different: u64,
    /// The images without a pool.
    pub blank: u64,
    pub faults: Faults,
    pub wrong: u64,
    /// Where the first wrong image or answer is, and why.
    why: Buffer,
    pub seen: Vec<Seen>,
}

/// The place of an image: the disk call, the line of the script in which it failed, and the image's
/// number.
#[derive(Clone, Copy)]
pub(crate) struct Place {
    pub call: u64,
    pub line: usize,
    pub image: Option<usize>,
}

impl Place {
    /// Returns the place of a lifetime whose images are not named yet.
    pub(crate) fn of_line(call: u64, line: usize) -> Place {
        Place {
            call,
            line,
            image: None,
        }
    }

    /// Returns the place of the image of this number.
    pub(crate) fn of_image(self, number: usize) -> Place {
        Place {
            image: Some(number),
            ..self
        }
    }
}

fn add_count(out: &mut Buffer, count: u64, word: &[u8]) {
    out.add_number(count);
    out.add(word);
}

fn add_place(out: &mut Buffer, place: &Place) {
    out.add(b"at call ");
    out.add_number(place.call);
    out.add(b" in line ");
    out.add_number(place.line as u64);
    if let Some(image) = place.image {
        out.add(b", image ");
        out.add_number(image as u64);
    }
    out.add(b": ");
}

impl Counts {
    pub(crate) fn new(alloc: Global, kind: Kind) -> Counts {
        Counts {
            kind,
            calls: 0,
            images: 0,
            later: 0,
            different: 0,
            blank: 0,
            faults: Faults::NONE,
            wrong: 0,
            why: Buffer::new(alloc),
            seen: Vec::new(alloc),
        }
    }

    pub(crate) fn checks(&self) -> u64 {
        self.calls
            .saturating_add(self.images)
            .saturating_add(self.later)
    }

    fn add_faults(&self, out: &mut Buffer) {
        out.add(b"reported by ");
        add_count(out, self.faults.options, b" options ");
        add_count(out, self.faults.reads, b" reads ");
        add_count(out, self.faults.changes, b" changes ");
        add_count(out, self.faults.closings, b" closings, ");
    }

    fn add_counts(&self, out: &mut Buffer) {
        add_count(out, self.calls, b" calls, ");
        if self.kind == Kind::Faults {
            self.add_faults(out);
        }
        add_count(out, self.images, b" images, ");
        add_count(out, self.later, b" later images");
        if self.kind == Kind::Crashes {
            out.add(b", ");
            add_count(out, self.different, b" different");
        }
        if self.blank > 0 {
            out.add(b", ");
            add_count(out, self.blank, b" without a pool");
        }
    }

    /// Adds the counts as text, or where the first wrong image or answer is.
    pub(crate) fn add_to(&self, out: &mut Buffer) {
        if self.wrong > 0 {
            add_count(out, self.wrong, b" others, the first ");
            out.add(self.why.as_slice());
        } else {
            self.add_counts(out);
        }
    }

    /// Counts a wrong image or answer, and notes its place if it is the first.
    fn count_wrong(&mut self, places: &[Place]) -> bool {
        self.wrong = self.wrong.saturating_add(1);
        let is_first = self.wrong == 1;
        if is_first {
            for place in places {
                add_place(&mut self.why, place);
            }
        }
        is_first
    }

    pub(crate) fn add_wrong(&mut self, places: &[Place], why: &[u8]) {
        if self.count_wrong(places) {
            self.why.add(why);
        }
    }

    /// Notes the wrong answers of a lifetime.
    pub(crate) fn judge(&mut self, places: &[Place], ending: &Ending) {
        if ending.wrong > 0 && self.count_wrong(places) {
            self.why.add(b"in line ");
            self.why.add_number(ending.line as u64);
            self.why.add(b": ");
            self.why.add(ending.why.as_slice());
        }
    }

    /// Notes the images of the second lifetime on this one.
    pub(crate) fn note_later(&mut self, seen: usize, images: u64) {
        if let Some(seen) = self.seen.get_mut(seen) {
            seen.later = Some(images);
        }
    }

    pub(crate) fn place_of(&self, checksum: u64) -> Option<usize> {
        self.seen.iter().position(|seen| seen.checksum == checksum)
    }

    /// Counts the images of the second lifetime on this one again, if it was played.
    pub(crate) fn count_again(&mut self, seen: usize) -> bool {
        match self.seen.get(seen).map(|seen| seen.later) {
            Some(Some(again)) => {
                self.later = self.later.saturating_add(again);
                true
            }
            _ => false,
        }
    }
}
