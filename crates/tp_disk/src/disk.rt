//! The contract of a disk.
ghost use Rattle.std.specs.Prelude.{◌≡◌, ◌+◌, ◌/◌, ◌%◌, ◌≤◌, length, is_ok, IsTrue, OnOk, OnErr};
ghost use Rattle.tp_model.specs.Sectors.{sectors_of, bytes_at};
ghost use Rattle.tp_model.specs.Disk.{DiskState, IsWellFormed, seen, Writes, after_read, after_write, after_flush};

/// Bytes of a sector.
pub(crate) const SECTOR: u64 = 512;

/// A disk has at most this many sectors: more bytes have no numbers below 2^63.
pub(crate) const MOST_SECTORS: u64 = 1 << 54;

/// The disk failed in this call.
#[derive(Clone, Copy, Debug, PartialEq, Eq)]
pub struct Fault;

/// A row of sectors of 512 bytes behind a volatile write cache.
///
/// Places and sizes are in sectors; a buffer holds whole sectors, and its range must lie on the disk. The state
/// that contracts see has, for each sector, its value at the last flush that succeeded and the values written
/// since: a stop leaves any one of them in each sector, each sector by itself. It also counts the calls that
/// failed and the calls of `flush`. That a read gives the newest values is promised where the disk is honest; all
/// else holds of every disk. No call changes the size, or whether the disk is honest.
pub trait Disk {
    ghost state: { Self → DiskState };

    /// The size of the disk, in sectors.
    fn sectors(&self) -> u64
        ensures { result ≡ (state self.now).size };

    /// Reads whole sectors from sector `at` on until `out` is full. After an `Err`, `out` may hold anything, and
    /// the disk is as before but for one failure more.
    fn read(&mut self, at: u64, out: &mut [u8]) -> Result<(), Fault>
        requires whole { length out.old % 512 ≡ 0 }
        requires within { at + length out.old / 512 ≤ (state self.old).size }
        ensures state { state self.new ≡ after_read (is_ok result) (state self.old) }
        ensures bytes { OnOk result (IsTrue (state self.old).is_honest
            → out.new ≡ bytes_at (seen (state self.old).cells) at (length out.old / 512)) };

    /// Writes whole sectors from sector `at` on. After an `Err`, which is counted as one failure, each sector of
    /// the range, by itself, reads as its old value or its new one, and a stop may leave either.
    fn write(&mut self, at: u64, bytes: &[u8]) -> Result<(), Fault>
        requires whole { length bytes.now % 512 ≡ 0 }
        requires within { at + length bytes.now / 512 ≤ (state self.old).size }
        ensures any { Writes at (sectors_of bytes.now) (state self.old) (state self.new) }
        ensures ok { OnOk result (state self.new ≡ after_write at (sectors_of bytes.now) (state self.old)) }
        ensures err { OnErr result ((state self.new).failures ≡ (state self.old).failures + 1) };

    /// Keeps what was written: after an `Ok` a stop leaves what reads give. After an `Err` nothing is kept that was
    /// not kept before, and one failure more is counted. Each call counts as a flush.
    fn flush(&mut self) -> Result<(), Fault>
        ensures { state self.new ≡ after_flush (is_ok result) (state self.old) };

    /// The state has whole sectors, as many as its size says, of which there are at most 2^54.
    ghost well_formed: { (disk : Self) → IsWellFormed (state disk).size (state disk).cells };
}
