//! The status lines.
ghost use Rattle.std.specs.Prelude.{◌≡◌, ◌*◌, ◌<◌, ◌≤◌, ◌^◌, ℕ, None, IfOk, string_bytes};
ghost use Rattle.tp_model.specs.Pool.{PlainPool};
ghost use Rattle.tp_model.specs.Status as status;
ghost use Rattle.tp_msg.specs.Told.{TellsPool, TellsVolume, mode_word, check_word, line_of, open_line, open_volume_line};

use std::alloc::{AllocError, Global};
use tp_model::Mode;
use tp_msg::{PoolStatus, VolumeStatus};

fn mode_word_of(told: &PoolStatus) -> &'static str
    ensures { result.now ≡ mode_word told.now }
{
    match told.mode {
        Mode::Writable if told.used_data == told.data_blocks => "out_of_data_space",
        Mode::Writable => "rw",
        Mode::ReadOnly => "ro",
        Mode::Failed => "Fail",
    }
}

fn fraction_of(alloc: Global, count: u32, total: u32) -> Result<String, AllocError>
    ensures { IfOk result (λ text. string_bytes text ≡ status.fraction count total) }
{
    format!(in alloc; "{count}/{total}")
}

fn held_word_of(alloc: Global, root: u32) -> Result<String, AllocError>
    ensures { IfOk result (λ text. string_bytes text ≡ status.held_word root) }
{
    if root == 0 {
        String::from_str(alloc, "-")
    } else {
        format!(in alloc; "{root}")
    }
}

// The line of a pool that is not failed, of these fields.
fn line_of(
    alloc: Global,
    id: u64,
    metadata: &str,
    data_part: &str,
    held: &str,
    mode: &str,
    check: &str,
) -> Result<String, AllocError>
    ensures { IfOk result (λ line. string_bytes line ≡ line_of id metadata.now data_part.now held.now mode.now check.now) }
{
    format!(in alloc;
        "{id} {metadata} {data_part} {held} {mode} no_discard_passdown error_if_no_space {check} 512"
    )
}

// The line of a pool that is not failed.
fn open_line(alloc: Global, told: &PoolStatus) -> Result<String, AllocError>
    ensures { IfOk result (λ line. string_bytes line ≡ open_line told.now) }
{
    let metadata = fraction_of(alloc, told.used_metadata, told.metadata_blocks)?;
    let data_part = fraction_of(alloc, told.used_data, told.data_blocks)?;
    let held = held_word_of(alloc, told.held_root)?;
    line_of(
        alloc,
        told.transaction_id,
        metadata.as_str(),
        data_part.as_str(),
        held.as_str(),
        mode_word_of(told),
        check_word_of(told.needs_check),
    )
}

fn check_word_of(needs_check: bool) -> &'static str
    ensures { result.now ≡ check_word needs_check }
{
    if needs_check { "needs_check" } else { "-" }
}

/// The line of a pool of which this is true.
pub fn pool_line(alloc: Global, told: &PoolStatus) -> Result<String, AllocError>
    ensures { IfOk result (λ line. (p : PlainPool) → TellsPool told.now p → string_bytes line ≡ status.pool_line p) }
{
    match told.mode {
        Mode::Failed => String::from_str(alloc, "Fail"),
        Mode::Writable | Mode::ReadOnly => open_line(alloc, told),
    }
}

// The line of a volume of a pool that is not failed.
fn open_volume_line(alloc: Global, mapped: u64, highest: Option<u64>) -> Result<String, AllocError>
    ensures { IfOk result (λ line. string_bytes line ≡ open_volume_line mapped highest) }
{
    match highest {
        Some(sector) => format!(in alloc; "{mapped} {sector}"),
        None => format!(in alloc; "{mapped} -"),
    }
}

/// The line of a volume of which this is true.
pub fn volume_line(alloc: Global, told: &VolumeStatus) -> Result<String, AllocError>
    requires sectors { 0 < told.now.block_sectors }
    ensures { IfOk result (λ line. (p : PlainPool) (id : ℕ) → TellsVolume told.now p id → string_bytes line ≡ status.volume_line p id) }
{
    let sectors = told.block_sectors as u64;
    let mapped = told.mapped_blocks as u64 * sectors;
    let highest = match told.highest_block {
        Some(block) => Some((block as u64 + 1) * sectors - 1),
        None => None,
    };
    match told.mode {
        Mode::Failed => String::from_str(alloc, "Fail"),
        Mode::Writable | Mode::ReadOnly => open_volume_line(alloc, mapped, highest),
    }
}
