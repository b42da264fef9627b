//! A count block: the counts of up to 1024 blocks, in 4096 bytes.
//!
//! Count i, of 4 bytes, stands at offset 4 * i. In block j of its part of an area it is the count of block
//! 1024 * j + i of the metadata or of the data, and behind the count of the last such block there is 0.

ghost use Rattle.std.specs.Prelude.{◌≡◌, ◌≤◌, ◌<◌, ◌^◌, ◌*◌, ℕ, List, length, take, All, IsOk, OnOk, OnErr};
ghost use Rattle.tp_layout.specs.Counts.{counts_bytes};

use crate::damaged::Damaged;
use crate::numbers::{BlockBytes, clear, is_zero, rest};
use byteorder::{ByteOrder, LittleEndian};

/// One of the two parts of a pool's blocks, whose counts have count blocks of their own.
#[derive(Clone, Copy, Debug, PartialEq, Eq)]
pub enum Part {
    /// The metadata blocks, of 4096 bytes.
    Metadata,
    /// The data blocks.
    Data,
}

/// The most counts of a count block.
pub const COUNTS_PER_BLOCK: usize = 1024;

/// The bytes before a place.
fn front(bytes: &[u8], len: usize) -> &[u8]
    requires { len ≤ length bytes.now }
    ensures { result.now ≡ take len bytes.now }
{
    bytes.split_at(len).0
}

/// Reads as many counts as there is room for, from the block that has these and no more. `Damaged` exactly where
/// a count behind them is not 0.
pub fn read_counts(block: &BlockBytes, counts: &mut [u32]) -> Result<(), Damaged>
    requires { length counts.old ≤ 1024 }
    // What is read is what the block spells.
    ensures found { OnOk result (block.now ≡ counts_bytes counts.new) }
    // All counts that are spelled so are read.
    ensures only { (cs : List ℕ) → length cs ≡ length counts.old → All (λ n. n < 2 ^ 32) cs → block.now ≡ counts_bytes cs → IsOk result × (counts.new ≡ cs) }
    ensures unchanged { OnErr result (counts.new ≡ counts.old) }
{
    let used = 4 * counts.len();
    if !is_zero(rest(block, used)) {
        return Err(Damaged);
    }
    LittleEndian::read_u32_into(front(block, used), counts);
    Ok(())
}

/// Writes counts over a block, and zeros behind them up to its last byte.
pub fn write_counts(counts: &[u32], block: &mut BlockBytes)
    requires { length counts.now ≤ 1024 }
    ensures { block.new ≡ counts_bytes counts.now }
{
    clear(block);
    LittleEndian::write_u32_into(counts, &mut block[..4 * counts.len()]);
}
