//! Whether counts stand in the count blocks of an area.
ghost use Rattle.std.specs.Prelude.{◌≡◌, ◌==◌, ◌+◌, ◌≤◌, ◌↔◌, ◌⊎◌, Err, IfErr, IfOk, IsTrue, OnOk, count_by, is_ok, length, not};
ghost use Rattle.tp_model.specs.Geometry.{IsWithinLimits, count_blocks, metadata_sector, sectors_of_image};
ghost use Rattle.tp_model.specs.Disk.{after_read, seen};
ghost use Rattle.tp_layout.specs.Counts.{counts_bytes};
ghost use Rattle.tp_image.specs.Areas.{AreSpelled, HoldsCounts, area_start, blocks_of, counts_start};
ghost use Rattle.tp_image.specs.Nodes.{block_at};
ghost use Rattle.tp_check.specs.Errors.{is_fault};
ghost use Rattle.tp_check.specs.declared.error.CheckError.{CheckError};

use crate::error::CheckError;
use tp_disk::{Disk, Fault};
use tp_layout::{COUNTS_PER_BLOCK, Part, SlotId, write_counts};
use tp_model::{Geometry, Mb};

/// Whether the count blocks from `first` on spell these counts. Each is read once, up to the first that does not.
pub(crate) fn are_spelled<D: Disk>(disk: &mut D, first: u32, counts: &[u32]) -> Result<bool, Fault>
    requires disk { metadata_sector (first + count_blocks (length counts.now)) ≤ (D.state disk.old).size }
    requires blocks { first + count_blocks (length counts.now) ≤ 65536 }
    ensures told { IfOk result (λ yes. IsTrue (D.state disk.old).is_honest
        → IsTrue yes ↔ AreSpelled (seen (D.state disk.old).cells) first counts.now) }
    ensures state { D.state disk.new ≡ after_read (is_ok result) (D.state disk.old) }
{
    for j in 0..counts.len().div_ceil(COUNTS_PER_BLOCK) {
        let from = COUNTS_PER_BLOCK * j;
        let to = counts.len().min(from + COUNTS_PER_BLOCK);
        if !is_spelled(disk, Mb::new(first + j as u32), &counts[from..to])? {
            return Ok(false);
        }
    }
    Ok(true)
}

/// The first count block of a part in an area.
fn counts_start(geometry: &Geometry, part: Part, area: SlotId) -> u32
    ensures value { result ≡ counts_start geometry.now part area }
    ensures within { IsWithinLimits geometry.now }
{
    let metadata = geometry.metadata_count_blocks();
    let start = area_start(geometry, area);
    match part {
        Part::Metadata => start,
        Part::Data => start + metadata,
    }
}

// The first metadata block of an area.
fn area_start(geometry: &Geometry, area: SlotId) -> u32
    ensures { result ≡ area_start geometry.now area }
{
    match area {
        SlotId::Zero => 2,
        SlotId::One => 2 + geometry.area_blocks(),
    }
}

/// Tests that these counts stand in the area: `BadCount` where they do not.
pub(crate) fn test_counts<D: Disk>(
    disk: &mut D,
    geometry: &Geometry,
    part: Part,
    area: SlotId,
    counts: &[u32],
) -> Result<(), CheckError>
    requires disk { sectors_of_image geometry.now ≤ (D.state disk.old).size }
    requires all { length counts.now ≡ blocks_of geometry.now part }
    ensures stored { OnOk result (IsTrue (D.state disk.old).is_honest → HoldsCounts (seen (D.state disk.old).cells) geometry.now part area counts.now) }
    ensures bad { result ≡ Err CheckError.BadCount → IsTrue (D.state disk.old).is_honest → HoldsCounts (seen (D.state disk.old).cells) geometry.now part area counts.now → ⊥ }
    ensures only { IfErr result (λ e. (e ≡ CheckError.Fault) ⊎ (e ≡ CheckError.BadCount)) }
    ensures state { D.state disk.new ≡ after_read (not (is_fault result)) (D.state disk.old) }
{
    match are_spelled(disk, counts_start(geometry, part, area), counts) {
        Ok(true) => Ok(()),
        Ok(false) => Err(CheckError::BadCount),
        Err(Fault) => Err(CheckError::Fault),
    }
}

/// How many of the counts are 0.
pub(crate) fn free_among(counts: &[u32]) -> usize
    ensures { result ≡ count_by (λ n. n == 0) counts.now }
{
    counts.iter().filter(|count| **count == 0).count()
}

/// Whether a count block spells these counts.
fn is_spelled<D: Disk>(disk: &mut D, place: Mb, counts: &[u32]) -> Result<bool, Fault>
    requires disk { metadata_sector (place + 1) ≤ (D.state disk.old).size }
    requires few { length counts.now ≤ 1024 }
    ensures told { IfOk result (λ yes. IsTrue (D.state disk.old).is_honest
        → IsTrue yes ↔ (block_at (seen (D.state disk.old).cells) place ≡ counts_bytes counts.now)) }
    ensures state { D.state disk.new ≡ after_read (is_ok result) (D.state disk.old) }
{
    let mut block = [0; 4096];
    let mut wanted = [0; 4096];
    disk.read(place.first_sector(), &mut block)?;
    write_counts(counts, &mut wanted);
    Ok(block == wanted)
}
