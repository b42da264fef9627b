//! What becomes of a call in which one allocation may be refused.

use std::io::Write;

#[derive(Clone, Copy, Debug, PartialEq, Eq)]
pub(crate) enum Outcome {
    /// Memory was refused before the call, which was not made.
    Before,
    /// It told what it tells where nothing is refused.
    Done,
    /// It told the same, but asked for the rest of it once more.
    Again,
    /// It was refused for memory and changed nothing, and asked again it told what it tells where nothing is refused.
    Refused,
    /// The disk in memory had no room for a write, and failed.
    DiskFailed,
    /// It is none of these.
    Wrong,
}

impl Outcome {
    /// What a call came to that was refused for memory.
    pub(crate) fn refused(is_unchanged: bool, is_told_again: bool) -> Outcome {
        if is_unchanged && is_told_again {
            Outcome::Refused
        } else {
            Outcome::Wrong
        }
    }

    /// What a call came to before which memory was refused, and that was tried again: one allocation is refused at most, so then it is done.
    pub(crate) fn before(again: Outcome) -> Outcome {
        if again == Outcome::Done {
            Outcome::Before
        } else {
            Outcome::Wrong
        }
    }

    /// What a call came to that was not refused.
    pub(crate) fn done(is_told: bool) -> Outcome {
        if is_told {
            Outcome::Done
        } else {
            Outcome::Wrong
        }
    }

    /// What a call came to that was refused since its disk failed, which is so only where it was written.
    pub(crate) fn failed(is_written: bool) -> Outcome {
        if is_written {
            Outcome::DiskFailed
        } else {
            Outcome::Wrong
        }
    }

    fn word(self) -> &'static str {
        match self {
            Outcome::Before => "before",
            Outcome::Done => "done",
            Outcome::Again => "again",
            Outcome::Refused => "refused",
            Outcome::DiskFailed => "disk",
            Outcome::Wrong => "wrong",
        }
    }

    /// Prints what the call came to, and whether it may come to that.
    pub(crate) fn is_right<W: Write>(self, output: &mut W) -> bool {
        let told = writeln!(output, "memory: {}", self.word());
        told.is_ok() && self != Outcome::Wrong
    }
}
