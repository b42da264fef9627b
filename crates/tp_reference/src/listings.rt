//! Listings of blocks, for volumes whose trees are leaves: such a listing has one page.

use crate::reference::Reference;
use crate::volume::Volume;
use tp_script::Buffer;

/// Blocks that follow each other.
#[derive(Clone, Copy)]
struct Extent {
    first: u64,
    blocks: u64,
}

fn add_extent(out: &mut Buffer, extent: Extent, block_bytes: u64) {
    if extent.blocks > 0 {
        out.add_number(extent.first.saturating_mul(block_bytes));
        out.add(b"+");
        out.add_number(extent.blocks.saturating_mul(block_bytes));
        out.add(b" ");
    }
}

/// Returns whether a block is listed: it is mapped, or two volumes map it differently.
fn is_listed(volume: &Volume, other: Option<&Volume>, block: usize) -> bool {
    let label = match other {
        Some(other) => other.label(block),
        None => 0,
    };
    volume.label(block) != label
}

impl Reference {
    /// Returns the page of the mapped blocks of a volume from this one on; or, with another volume, of
    /// the other one's blocks in which both differ. Returns `None` if there is no such volume.
    pub fn page(&self, ids: (u32, Option<u32>), from: u32) -> Option<Buffer> {
        let volume = self.volume(ids.0)?;
        let other = match ids.1 {
            Some(other) => Some(self.volume(other)?),
            None => None,
        };
        Some(self.page_of(volume, other, from))
    }

    fn page_of(&self, volume: &Volume, other: Option<&Volume>, from: u32) -> Buffer {
        let block_bytes = self.block_sectors().saturating_mul(512);
        let blocks = match other {
            Some(other) => other.blocks(),
            None => volume.blocks(),
        };
        let mut page = Buffer::new(self.alloc);
        let mut extent = Extent {
            first: 0,
            blocks: 0,
        };
        for block in from as usize..blocks {
            if is_listed(volume, other, block) {
                if extent.blocks == 0 {
                    extent.first = block as u64;
                }
                extent.blocks = extent.blocks.saturating_add(1);
            } else {
                add_extent(&mut page, extent, block_bytes);
                extent.blocks = 0;
            }
        }
        add_extent(&mut page, extent, block_bytes);
        page.add(b"end");
        page
    }

    /// Returns the numbers of all volumes, with spaces between; `none` if there are none.
    pub fn volume_numbers(&self) -> Buffer {
        let mut list = Buffer::new(self.alloc);
        for volume in self.volumes() {
            list.add_to_list(volume.id() as u64);
        }
        list.end_list();
        list
    }

    /// Returns the numbers of the mapped blocks of a volume from this one on, with spaces between; `none` if there are none.
    pub fn mapped_blocks(&self, volume: &Volume, from: u32) -> Buffer {
        let mut list = Buffer::new(self.alloc);
        for block in from as usize..volume.blocks() {
            if volume.label(block) != 0 {
                list.add_to_list(block as u64);
            }
        }
        list.end_list();
        list
    }
}
