//! A client that gives what was written down, and takes what comes in small writes or large ones.
ghost use Rattle.std.specs.Prelude.{◌≡◌, ◌<◌, ◌≤◌, length};

use tp_hub::{Log, Made, Put, Received, Stream};

/// How much of the bytes that are written is kept.
pub(crate) const KEPT: usize = 4096;

/// A client: what it sends, so many bytes a read, and what became of it.
#[derive(Drop)]
pub(crate) struct Script<'a> {
    log: Log,
    sends: &'a [u8],
    at: usize,
    /// At most so many bytes are given by one read.
    pub gives: usize,
    /// At most so many bytes are taken by one write; 0 is a write that takes nothing.
    pub takes: usize,
    pub reads: u64,
    pub flushes: u64,
    /// How many reads there were after all bytes were given.
    pub late_reads: u64,
    /// How many bytes were taken, and the most that one write offered.
    pub taken: u64,
    pub most_offered: usize,
    /// The first bytes that were taken.
    pub kept: [u8; KEPT],
}

impl<'a> Script<'a> {
    /// A client that sends the bytes, all in one read, and takes all that is written.
    pub(crate) fn new(sends: &'a [u8]) -> Script<'a> {
        Script {
            log: Log::new(),
            sends,
            at: 0,
            gives: usize::MAX,
            takes: usize::MAX,
            reads: 0,
            flushes: 0,
            late_reads: 0,
            taken: 0,
            most_offered: 0,
            kept: [0; KEPT],
        }
    }
}

/// Copies a piece to the front of a buffer: at most `most` bytes of it.
fn give(buffer: &mut [u8], piece: &[u8], most: usize) -> usize
    ensures bound { result ≤ length buffer.old }
    ensures len { length buffer.new ≡ length buffer.old }
{
    let count = buffer.len().min(piece.len()).min(most);
    buffer[..count].copy_from_slice(&piece[..count]);
    count
}

/// The bytes from a place on.
fn behind(bytes: &[u8], at: usize) -> &[u8] {
    bytes.get(at..).unwrap_or(&[])
}

/// Keeps bytes from a place on, as far as there is room.
fn keep(kept: &mut [u8; KEPT], at: u64, bytes: &[u8]) {
    let Ok(at) = usize::try_from(at) else {
        return;
    };
    for (i, byte) in bytes.iter().enumerate() {
        if let Some(place) = kept.get_mut(at.saturating_add(i)) {
            *place = *byte;
        }
    }
}

impl<'a> Stream for Script<'a> {
    ghost calls = { λ s. s.log.calls };

    fn receive(&mut self, buffer: &mut Vec<u8>) -> Received {
        self.reads = self.reads.saturating_add(1);
        let count = give(
            buffer.as_mut_slice(),
            behind(self.sends, self.at),
            self.gives,
        );
        let received = if count == 0 {
            self.late_reads = self.late_reads.saturating_add(1);
            Received::End
        } else {
            self.at = self.at.saturating_add(count);
            Received::Got(count)
        };
        self.log.note(&Made::Read(received), buffer.as_slice());
        received
    }

    fn send(&mut self, bytes: &[u8]) -> Put {
        self.most_offered = self.most_offered.max(bytes.len());
        let count = bytes.len().min(self.takes);
        let put = if count == 0 {
            Put::Failed
        } else {
            keep(&mut self.kept, self.taken, &bytes[..count.min(KEPT)]);
            self.taken = self.taken.saturating_add(count as u64);
            Put::Wrote(count)
        };
        self.log.note(&Made::Written(put), bytes);
        put
    }

    fn flush(&mut self) -> bool {
        self.flushes = self.flushes.saturating_add(1);
        self.log.note(&Made::Flushed(true), &[]);
        true
    }
}
