//! The count blocks of one part in one area of the disk.
ghost use Rattle.std.specs.Prelude.{◌≡◌, ◌+◌, ◌<◌, ◌≤◌, ◌^◌, ◌*◌, ◌⊎◌, ℕ, List, All, Err, IfErr, IsTrue, OnErr, OnOk, is_err, length, not};
ghost use Rattle.tp_model.specs.Geometry.{area_blocks, count_blocks, metadata_sector};
ghost use Rattle.tp_counts.specs.StoreErrors.{is_fault};
ghost use Rattle.tp_model.specs.Sectors.{sectors_of};
ghost use Rattle.tp_model.specs.Disk.{FaultHasCause, IsSameDisk, Writes, after_read, after_write, seen};
ghost use Rattle.tp_model.specs.DiskStops.{LeavesOutside, SameOutside};
ghost use Rattle.tp_layout.specs.Counts.{counts_bytes};
ghost use Rattle.tp_image.specs.Nodes.{block_at};
ghost use Rattle.tp_image.specs.Areas.{AreSpelled, area_start, counts_in, counts_start};
ghost use Rattle.tp_counts.specs.Counts.{SpellOthers};

use crate::error::StoreError;
use crate::{BLOCK, BlockMarks};
use tp_disk::{Disk, Fault};
use tp_layout::{COUNTS_PER_BLOCK, Part, SlotId, read_counts, write_counts};
use tp_model::{Geometry, Mb};

// The first metadata block of an area.
fn area_start(geometry: &Geometry, area: SlotId) -> u32
    ensures { result ≡ area_start geometry.now area }
{
    match area {
        SlotId::Zero => 2,
        SlotId::One => 2 + geometry.area_blocks(),
    }
}

/// The first count block of a part in an area.
pub(crate) fn counts_start(geometry: &Geometry, part: Part, area: SlotId) -> u32
    ensures { result ≡ counts_start geometry.now part area }
{
    let start = area_start(geometry, area);
    match part {
        Part::Metadata => start,
        Part::Data => start + geometry.metadata_count_blocks(),
    }
}

/// Reads as many counts as there is room for, from the count blocks from `first` on. `Damaged` where these spell no
/// such counts, and `Fault` where a read failed; then `counts` may hold anything.
pub(crate) fn read_all<D: Disk>(
    disk: &mut D,
    first: u32,
    counts: &mut [u32],
    bytes: &mut [u8; BLOCK],
) -> Result<(), StoreError>
    requires disk { metadata_sector (first + count_blocks (length counts.old)) ≤ (D.state disk.old).size }
    requires blocks { first + count_blocks (length counts.old) ≤ 65536 }
    ensures found { OnOk result (IsTrue (D.state disk.old).is_honest → AreSpelled (seen (D.state disk.old).cells) first counts.new) }
    ensures damaged { result ≡ Err StoreError.Damaged → IsTrue (D.state disk.old).is_honest → (cs : List ℕ) → length cs ≡ length counts.old
        → All (λ n. n < 2 ^ 32) cs → AreSpelled (seen (D.state disk.old).cells) first cs → ⊥ }
    ensures state { D.state disk.new ≡ after_read (not (is_fault result)) (D.state disk.old) }
    ensures long { length counts.new ≡ length counts.old }
    ensures fit { All (λ n. n < 2 ^ 32) counts.new }
{
    for j in 0..counts.len().div_ceil(COUNTS_PER_BLOCK) {
        let from = COUNTS_PER_BLOCK * j;
        let to = counts.len().min(from + COUNTS_PER_BLOCK);
        read_one(
            disk,
            Mb::new(first + j as u32),
            &mut counts[from..to],
            bytes,
        )?;
    }
    Ok(())
}

fn read_one<D: Disk>(
    disk: &mut D,
    block: Mb,
    counts: &mut [u32],
    bytes: &mut [u8; BLOCK],
) -> Result<(), StoreError>
    requires disk { metadata_sector (block + 1) ≤ (D.state disk.old).size }
    requires few { length counts.old ≤ 1024 }
    ensures found { OnOk result (IsTrue (D.state disk.old).is_honest → block_at (seen (D.state disk.old).cells) block ≡ counts_bytes counts.new) }
    ensures damaged { result ≡ Err StoreError.Damaged → IsTrue (D.state disk.old).is_honest → (cs : List ℕ) → length cs ≡ length counts.old
        → All (λ n. n < 2 ^ 32) cs → block_at (seen (D.state disk.old).cells) block ≡ counts_bytes cs → ⊥ }
    ensures state { D.state disk.new ≡ after_read (not (is_fault result)) (D.state disk.old) }
{
    disk.read(block.first_sector(), bytes)?;
    read_counts(bytes, counts)?;
    Ok(())
}

/// Writes those of the count blocks from `first` on that are marked. The others are to hold their counts already. After
/// an `Err` some of their sectors are written, each by itself.
pub(crate) fn write_marked<D: Disk>(
    disk: &mut D,
    first: u32,
    counts: &[u32],
    marks: &BlockMarks,
    bytes: &mut [u8; BLOCK],
) -> Result<(), Fault>
    requires disk { metadata_sector (first + count_blocks (length counts.now)) ≤ (D.state disk.old).size }
    requires blocks { first + count_blocks (length counts.now) ≤ 65536 }
    requires few { length counts.now ≤ 1048576 }
    ensures written { OnOk result (SpellOthers (seen (D.state disk.old).cells) first counts.now marks.now → AreSpelled (seen (D.state disk.new).cells) first counts.now) }
    ensures any_moment { LeavesOutside (metadata_sector first) (8 * count_blocks (length counts.now)) (D.state disk.old) (D.state disk.new) }
    ensures outside { SameOutside (metadata_sector first) (8 * count_blocks (length counts.now)) (seen (D.state disk.old).cells) (seen (D.state disk.new).cells) }
    ensures same_disk { IsSameDisk (D.state disk.old) (D.state disk.new) }
    ensures cause { FaultHasCause (is_err result) (D.state disk.old) (D.state disk.new) }
    ensures flushes { (D.state disk.new).flushes ≡ (D.state disk.old).flushes }
    ensures fit { All (λ n. n < 2 ^ 32) counts.now }
{
    for j in 0..counts.len().div_ceil(COUNTS_PER_BLOCK) {
        if marks[j] {
            let from = COUNTS_PER_BLOCK * j;
            let to = counts.len().min(from + COUNTS_PER_BLOCK);
            write_one(disk, Mb::new(first + j as u32), &counts[from..to], bytes)?;
        }
    }
    Ok(())
}

fn write_one<D: Disk>(
    disk: &mut D,
    block: Mb,
    counts: &[u32],
    bytes: &mut [u8; BLOCK],
) -> Result<(), Fault>
    requires disk { metadata_sector (block + 1) ≤ (D.state disk.old).size }
    requires few { length counts.now ≤ 1024 }
    ensures any { Writes (metadata_sector block) (sectors_of (counts_bytes counts.now)) (D.state disk.old) (D.state disk.new) }
    ensures ok { OnOk result (D.state disk.new ≡ after_write (metadata_sector block) (sectors_of (counts_bytes counts.now)) (D.state disk.old)) }
    ensures err { OnErr result ((D.state disk.new).failures ≡ (D.state disk.old).failures + 1) }
    ensures long { length (counts_bytes counts.now) ≡ 4096 }
{
    write_counts(counts, bytes);
    disk.write(block.first_sector(), bytes)
}
