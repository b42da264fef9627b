//! The status lines of the reference model.

use crate::reference::Reference;
use crate::volume::Volume;
use std::alloc::{AllocError, Global};
use tp_model::Mode;
use tp_plain::{PoolStatus, VolumeStatus, pool_line, volume_line};

/// Returns the number after this many spaces and slashes of a status line; 0 if there is none.
fn number_after(line: &[u8], marks: usize) -> u32 {
    let mut passed: usize = 0;
    let mut number: u32 = 0;
    for byte in line {
        if *byte == b' ' || *byte == b'/' {
            passed = passed.saturating_add(1);
        } else if passed == marks && byte.is_ascii_digit() {
            let digit = byte.saturating_sub(b'0') as u32;
            number = number.saturating_mul(10).saturating_add(digit);
        }
    }
    number
}

/// Returns the number of metadata blocks in use by a pool's status line.
pub fn used_metadata_in(line: &[u8]) -> u32 {
    number_after(line, 1)
}

fn snapshot_root_in(line: &[u8]) -> u32 {
    number_after(line, 5)
}

impl Reference {
    /// Returns the status line that a pool must report in place of `reported`. The number of the metadata snapshot's root is
    /// taken from that line, and the metadata blocks in use unless the model counts them.
    pub fn line_for(&self, reported: &[u8]) -> Result<String, AllocError> {
        self.line_in(self.mode, reported)
    }

    /// Returns the same line for the pool after an opening.
    pub(crate) fn line_after_opening(&self, reported: &[u8]) -> Result<String, AllocError> {
        self.line_in(self.mode_after_opening(), reported)
    }

    fn line_in(&self, mode: Mode, reported: &[u8]) -> Result<String, AllocError> {
        let used_metadata = if self.counts_metadata() {
            self.used_metadata()?
        } else {
            used_metadata_in(reported)
        };
        let held_root = if self.has_snapshot() {
            snapshot_root_in(reported).max(1)
        } else {
            0
        };
        let used_data = u32::try_from(self.used_data()?).unwrap_or(u32::MAX);
        pool_line(
            self.alloc,
            &PoolStatus {
                transaction_id: self.transaction_id,
                used_metadata,
                metadata_blocks: self.geometry.metadata_blocks(),
                used_data,
                data_blocks: self.geometry.data_blocks(),
                mode,
                needs_check: self.needs_check,
                held_root,
            },
        )
    }

    /// Returns the bytes of a volume and of a block, as a server reports them.
    pub fn size_line(&self, volume: &Volume) -> Result<String, AllocError> {
        let block = self.block_sectors().saturating_mul(512);
        let bytes = block.saturating_mul(volume.blocks() as u64);
        format!(in self.alloc; "{bytes} {block}")
    }

    /// Returns the status line of a volume.
    pub fn volume_line(&self, volume: &Volume) -> Result<String, AllocError> {
        let mapped = u32::try_from(volume.mapped()).unwrap_or(u32::MAX);
        line_of(
            self.alloc,
            VolumeStatus {
                mode: self.mode,
                block_sectors: self.geometry.block_sectors(),
                mapped_blocks: mapped,
                highest_block: volume.highest(),
            },
        )
    }
}

fn line_of(alloc: Global, status: VolumeStatus) -> Result<String, AllocError> {
    if status.block_sectors == 0 || status.mode == Mode::Failed {
        return String::from_str(alloc, "Fail");
    }
    volume_line(alloc, &status)
}
