//! Why a task failed.

ghost use Rattle.std.specs.Prelude.{◌≡◌};
ghost use Rattle.tp_failures.specs.Failures.{number_of};

use std::io;
use tp_disk::{OpenError, TellsTrouble, Trouble};
use tp_model::Refusal;
use tp_sizing::Unfit;

/// Why a task failed: its error number, and its cause.
#[derive(Clone, Copy, Debug)]
pub struct Failure {
    pub refusal: Refusal,
    pub cause: Cause,
}

/// The cause of an error. The image, the script and the addresses are those of the task.
#[derive(Clone, Copy, Debug)]
pub enum Cause {
    /// The number states the cause.
    Meaning,
    /// The image was not opened.
    Image(OpenError),
    /// A call on the image's disk failed.
    Disk(Trouble),
    /// The script was not opened.
    Script(io::Error),
    /// A read of the script failed.
    ScriptEnded,
    /// The server cannot listen on the address for clients.
    Address(io::Error),
    /// The server cannot listen on the address for control lines.
    Control(io::Error),
    /// An accept failed after this number of clients had connected.
    Accept(u8),
    /// The number of clients that were disconnected for lack of memory or a thread.
    TurnedAway(u64),
    /// The server cannot listen on the address of this number: 0 to 3 are for clients, 4 is for
    /// control lines.
    Place(u8, io::Error),
    /// The group of socket files does not exist.
    Group,
    /// The file of groups cannot be read.
    Groups(io::Error),
    /// A thread for clients or for control lines cannot be created.
    Threads,
    /// A server cannot be reached, or the connection to it failed.
    Reach(io::Error),
    /// The server replied `refused N` to a line.
    Answered,
    /// The server replied to `health` that its pool failed, or that its device does not answer.
    Unwell,
    /// The control line `stop now` was not quoted, so it came as two lines.
    Unquoted,
    /// The server closed the connection after this number of replies.
    Unanswered(u64),
    /// Standard output cannot be written.
    Output,
    /// The answer to the confirmation was not `yes`.
    Declined,
    /// A device has `sectors` sectors, and the pool needs `wanted`.
    Small { sectors: u64, wanted: u64 },
    /// A device, or a file for `create`, contains data that is not a pool, and `--overwrite` was not
    /// given.
    Taken,
    /// No pool has the requested sizes.
    Unfit(Unfit),
}

impl Failure {
    /// The error of an image that was not opened.
    pub fn unopened(error: OpenError) -> Failure
        ensures { result.refusal ≡ Refusal.Fault }
    {
        Failure {
            refusal: Refusal::Fault,
            cause: Cause::Image(error),
        }
    }

    /// An error 5 (Fault) of this cause.
    pub fn fault(cause: Cause) -> Failure
        ensures { result.refusal ≡ Refusal.Fault }
    {
        Failure {
            refusal: Refusal::Fault,
            cause,
        }
    }

    /// The error of a device that is too small for the requested sizes.
    pub fn too_small(sectors: u64, wanted: u64) -> Failure
        ensures { result.refusal ≡ Refusal.BadGeometry }
    {
        Failure {
            refusal: Refusal::BadGeometry,
            cause: Cause::Small { sectors, wanted },
        }
    }

    /// The error of a device or file with data that is not a pool.
    pub fn taken() -> Failure
        ensures { result.refusal ≡ Refusal.Exists }
    {
        Failure {
            refusal: Refusal::Exists,
            cause: Cause::Taken,
        }
    }

    /// The error of sizes that no pool has.
    pub fn unfit(unfit: Unfit) -> Failure
        ensures { result.refusal ≡ Refusal.BadGeometry }
    {
        Failure {
            refusal: Refusal::BadGeometry,
            cause: Cause::Unfit(unfit),
        }
    }

    /// Returns whether the explanation has a number that the error does not name.
    pub fn needs_reason(&self) -> bool {
        match self.cause {
            Cause::Unfit(_) => true,
            // A number does not name the group.
            Cause::Group => true,
            _ => false,
        }
    }

    /// The error of a pool, with the last error of its disk.
    pub fn on_disk(refusal: Refusal, trouble: Option<Trouble>) -> Failure
        ensures { result.refusal ≡ refusal }
    {
        Failure {
            refusal,
            cause: cause_of(refusal, trouble),
        }
    }
}

impl From<Refusal> for Failure {
    ghost from_gives = { λ refusal failure. failure.refusal ≡ refusal };

    fn from(refusal: Refusal) -> Failure {
        Failure {
            refusal,
            cause: Cause::Meaning,
        }
    }
}

/// Returns the cause of a pool's error. Only the disk and the output return `Fault`, so without an
/// error of the disk the output failed.
fn cause_of(refusal: Refusal, trouble: Option<Trouble>) -> Cause {
    match trouble {
        Some(trouble) => match refusal {
            Refusal::Fault | Refusal::Failed => Cause::Disk(trouble),
            _ => Cause::Meaning,
        },
        None => match refusal {
            Refusal::Fault => Cause::Output,
            _ => Cause::Meaning,
        },
    }
}

/// Returns the result of a pool on this disk, with the cause of an error.
pub fn because<D: TellsTrouble>(disk: &D, done: Result<(), Refusal>) -> Result<(), Failure>
    ensures { number_of result ≡ done }
{
    match done {
        Ok(()) => Ok(()),
        Err(refusal) => Err(Failure::on_disk(refusal, disk.trouble())),
    }
}
