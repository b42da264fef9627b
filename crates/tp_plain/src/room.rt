//! How many data blocks a request takes.
ghost use Rattle.std.specs.Prelude.{ℕ, ◌≡◌, ◌*◌, ◌<◌, ◌≤◌, ◌+◌, ◌^◌, ◌&&◌, not, length, Option, None, is_some, slice_index_or};
ghost use Rattle.std.specs.List.{count_by, range_with_len};
ghost use Rattle.tp_model.specs.Pool.{PlainPool, all_slots, slot_at, volume_sectors};
ghost use Rattle.tp_model.specs.Calls.{Call};
ghost use Rattle.tp_model.specs.Calls as calls;
ghost use Rattle.tp_plain.specs.Slots.{triples, is_alone};
ghost use Rattle.tp_plain.specs.Room.{IsCall, takes_slot, first_of_change, count_of_change};

use crate::requests::{covers, touches};
use crate::slots::{Slot, is_alone};

/// A request that changes a volume: its first sector, and how many.
#[derive(Clone, Copy, Debug)]
pub enum Change {
    Write {
        sector: u64,
        count: u64,
    },
    Trim {
        sector: u64,
        count: u64,
    },
    WriteZeroes {
        sector: u64,
        count: u64,
        no_hole: bool,
    },
}

// Whether the request leaves the block a data block of its own.
fn takes_slot_of(change: Change, block_sectors: u64, block: u64, is_mapped: bool) -> bool
    requires sectors { block_sectors ≤ 2048 }
    requires block { block < 2 ^ 24 }
    requires range { first_of_change change + count_of_change change < 2 ^ 60 }
    ensures { result ≡ takes_slot change block_sectors block is_mapped }
{
    match change {
        Change::Write { sector, count } => touches(block_sectors, sector, count, block),
        Change::Trim { .. } => false,
        Change::WriteZeroes {
            sector,
            count,
            no_hole,
        } => {
            let touched = touches(block_sectors, sector, count, block);
            let covered = covers(block_sectors, sector, count, block);
            touched && (no_hole || (is_mapped && !covered))
        }
    }
}

fn takes_new_block(
    change: Change,
    block_sectors: u64,
    slots: &[Slot],
    volume: u32,
    block: u32,
    label: Option<u32>,
) -> bool
    requires sectors { block_sectors ≤ 2048 }
    requires block { block < 2 ^ 24 }
    requires range { first_of_change change + count_of_change change < 2 ^ 60 }
    ensures { result ≡ takes_slot change block_sectors block (is_some label) && not (is_alone slots.now volume block label) }
{
    takes_slot_of(change, block_sectors, block as u64, label.is_some())
        && !is_alone(slots, volume, block, label)
}

fn count_new(
    block_sectors: u64,
    slots: &[Slot],
    volume: u32,
    labels: &[Option<u32>],
    change: Change,
) -> usize
    requires sectors { block_sectors ≤ 2048 }
    requires blocks { length labels.now ≤ 2 ^ 24 }
    requires range { first_of_change change + count_of_change change < 2 ^ 60 }
    ensures { result ≡ count_by (λ b. takes_slot change block_sectors b (is_some (slice_index_or labels.now b None)) && not (is_alone slots.now volume b (slice_index_or labels.now b None))) (range_with_len 0 (length labels.now)) }
{
    let mut count = 0;
    for block in 0..labels.len() {
        if takes_new_block(
            change,
            block_sectors,
            slots,
            volume,
            block as u32,
            labels[block],
        ) {
            count += 1;
        }
    }
    count
}

/// How many blocks of a volume, whose slots have these labels block by block, the request gives a new data block.
pub fn need(
    block_sectors: u64,
    slots: &[Slot],
    volume: u32,
    labels: &[Option<u32>],
    change: Change,
) -> usize
    requires some { 0 < block_sectors }
    requires sectors { block_sectors ≤ 2048 }
    requires blocks { length labels.now ≤ 2 ^ 24 }
    requires range { first_of_change change + count_of_change change < 2 ^ 60 }
    ensures { (p : PlainPool) (call : Call) → IsCall volume change call
        → p.geometry.block_sectors ≡ block_sectors → all_slots p ≡ triples slots.now
        → length (volume_sectors p volume) ≡ length labels.now * block_sectors
        → ((b : ℕ) → b < length labels.now → slot_at p volume b ≡ slice_index_or labels.now b None)
        → result ≡ calls.need p call volume }
{
    count_new(block_sectors, slots, volume, labels, change)
}
