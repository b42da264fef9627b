//! Random calls on up to twelve volumes in chains of snapshots, with crashes and reopenings.

use crate::world::World;
use std::alloc::AllocError;
use tp_script::{Answer, Buffer, CrashImage, Disk, Operation, Pool, Request, Verb};

/// Volumes.
const VOLUMES: u64 = 12;

/// The factor of the linear congruential generator.
const FACTOR: u64 = 6_364_136_223_846_793_005;

/// A random call.
#[derive(Clone, Copy)]
enum Step {
    Line(Verb<'static>),
    /// A message: its name, and the numbers after it.
    Message(&'static str, [Option<u64>; 2]),
    Reopen,
}

fn message(name: &'static str) -> Step {
    Step::Message(name, [None, None])
}

fn message_of(name: &'static str, number: u64) -> Step {
    Step::Message(name, [Some(number), None])
}

fn message_of_two(name: &'static str, first: u64, second: u64) -> Step {
    Step::Message(name, [Some(first), Some(second)])
}

/// Adds the text of a message.
fn add_message(out: &mut Buffer, name: &str, numbers: &[Option<u64>]) {
    out.add(name.as_bytes());
    for number in numbers {
        if let Some(number) = *number {
            out.add_to_list(number);
        }
    }
}

fn request(volume: u64, sector: u64, count: u64, operation: Operation) -> Pool<'static> {
    Pool::Request(Request {
        volume: (volume % VOLUMES) as u32,
        sector,
        count,
        operation,
    })
}

/// Returns a few sectors about the end of a block, a whole block, or more.
fn range_of(bits: u64) -> (u64, u64) {
    let block = 128 * ((bits >> 36) % 4);
    let near = (bits >> 38) % 4;
    match (bits >> 40) % 8 {
        0 => (block, 128),
        1 => (block / 2, 256),
        2 => (block, 1 + near),
        _ => (
            block.saturating_add(124).saturating_add(near).min(508),
            1 + near,
        ),
    }
}

/// Returns a seed for the values that a crash leaves: the oldest, the newest, or others.
fn seed_of(bits: u64) -> Option<u64> {
    match bits % 3 {
        0 => Some(0),
        1 => None,
        _ => Some(bits),
    }
}

fn write_of(bits: u64, volume: u64) -> Step {
    let (sector, count) = range_of(bits);
    let value = ((bits >> 44) % 63 + 1) as u8;
    let operation = Operation::Write { value, fua: false };
    Step::Line(Verb::Pool(request(volume, sector, count, operation)))
}

fn clear_of(bits: u64, volume: u64, trims: bool) -> Step {
    let (sector, count) = range_of(bits);
    let operation = if trims {
        Operation::Trim { fua: false }
    } else {
        Operation::Zero {
            no_hole: (bits >> 48) % 4 == 0,
            fua: false,
        }
    };
    Step::Line(Verb::Pool(request(volume, sector, count, operation)))
}

fn snapshot_of(bits: u64, volume: u64) -> Step {
    let other = (bits >> 36) % VOLUMES;
    let before = (volume % VOLUMES + 11) % VOLUMES;
    let origin = if (bits >> 40) % 2 == 0 { before } else { other };
    message_of_two("create_snap", volume, origin)
}

/// Returns the step of this number. The first one creates a volume.
fn step_of(number: u64, bits: u64) -> Step {
    if number == 0 {
        return message_of("create_thin", 0);
    }
    let volume = (bits >> 32) % VOLUMES;
    match (bits >> 50) % 128 {
        0..=76 => write_of(bits, volume),
        77 => message("reserve_metadata_snap"),
        78..=79 => message("release_metadata_snap"),
        80..=91 => clear_of(bits, volume, true),
        92..=103 => clear_of(bits, volume, false),
        104..=111 => snapshot_of(bits, volume),
        112..=113 => message_of("create_thin", volume),
        114..=116 => message_of("delete", volume),
        117 => message_of_two("grow", volume, (bits >> 36) % 8),
        118..=119 => message_of_two("set_transaction_id", (bits >> 36) % 2, (bits >> 37) % 2),
        120..=122 => Step::Line(Verb::Pool(Pool::Flush)),
        123 => Step::Reopen,
        _ => Step::Line(Verb::Disk(Disk::Crash(CrashImage::MixedApart(
            seed_of(bits >> 36),
            seed_of(bits >> 40),
        )))),
    }
}

impl World {
    /// Plays a line. Returns whether its answer is one that the reference model allows.
    fn is_right(&mut self, verb: &Verb<'_>) -> Result<bool, AllocError> {
        let answer = self.play(verb)?;
        let is_crash = matches!(verb, Verb::Disk(Disk::Crash(_)));
        let is_valid = !matches!(answer, Answer::Misplaced | Answer::Strange);
        if !is_valid || is_crash && answer != Answer::Done {
            self.note(b"a valid answer");
        }
        Ok(self.mismatch.is_empty())
    }

    fn is_message_right(
        &mut self,
        name: &str,
        numbers: [Option<u64>; 2],
    ) -> Result<bool, AllocError> {
        let mut line = Buffer::new(self.alloc);
        add_message(&mut line, name, &numbers);
        self.is_right(&Verb::Pool(Pool::Message(line.as_slice())))
    }

    fn is_reopening_right(&mut self) -> Result<bool, AllocError> {
        Ok(self.is_right(&Verb::Disk(Disk::Close))? && self.is_right(&Verb::Disk(Disk::Open))?)
    }

    fn is_step_right(&mut self, step: &Step) -> Result<bool, AllocError> {
        match *step {
            Step::Line(verb) => self.is_right(&verb),
            Step::Reopen => self.is_reopening_right(),
            Step::Message(name, numbers) => self.is_message_right(name, numbers),
        }
    }

    /// Returns whether the status line, and a volume with its size and its copy in the metadata
    /// snapshot, are right.
    fn is_state_right(&mut self, number: u64) -> Result<bool, AllocError> {
        let volume = (number % VOLUMES) as u32;
        let request = Request {
            volume,
            sector: 0,
            count: 512,
            operation: Operation::Read { df: false },
        };
        Ok(
            self.is_right(&Verb::Pool(Pool::Status))?
                && self.is_right(&Verb::Pool(Pool::Size(volume)))?
                && self.is_right(&Verb::Pool(Pool::Request(request)))?
                && self.is_right(&Verb::Pool(Pool::ReadSnapshot(request)))?,
        )
    }

    /// Plays random steps, and looks at the pool after each. Returns the first step after which
    /// something is wrong.
    pub(crate) fn first_wrong_step(
        &mut self,
        seed: u64,
        steps: u64,
    ) -> Result<Option<u64>, AllocError> {
        let mut bits = seed;
        for number in 0..steps {
            bits = bits.wrapping_mul(FACTOR).wrapping_add(1);
            let step = step_of(number, bits);
            if !self.is_step_right(&step)? || !self.is_state_right(number)? {
                return Ok(Some(number));
            }
        }
        Ok(None)
    }
}
