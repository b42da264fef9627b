//! The status lines, written into buffers.

ghost use Rattle.std.specs.Prelude.{◌≡◌, ◌+◌, ◌*◌, ◌<◌, ◌≤◌, ◌++◌, ℕ, length, take};
ghost use Rattle.std.specs.Fmt.{decimal};
ghost use Rattle.tp_model.specs.Pool.{PlainPool};
ghost use Rattle.tp_model.specs.Status.{fraction, held_word, pool_line, volume_line};
ghost use Rattle.tp_msg.specs.Told.{TellsPool, TellsVolume, check_word, figures, last_sector, mode_word, open_line, open_volume_line, status_line, thin_line};

use itoa::Buffer;
use tp_model::Mode;

/// What the line of a pool tells.
#[derive(Clone, Copy, Debug)]
pub struct PoolStatus {
    pub transaction_id: u64,
    /// How many metadata blocks, of 4096 bytes, are used, and how many there are.
    pub used_metadata: u32,
    pub metadata_blocks: u32,
    /// How many data blocks some volume maps, and how many there are.
    pub used_data: u32,
    pub data_blocks: u32,
    pub mode: Mode,
    pub needs_check: bool,
    /// The number of the metadata root that is held; 0 where none is.
    pub held_root: u32,
}

/// What the line of a volume tells.
#[derive(Clone, Copy, Debug)]
pub struct VolumeStatus {
    /// The mode of its pool.
    pub mode: Mode,
    /// The sectors, of 512 bytes, of one block.
    pub block_sectors: u32,
    pub mapped_blocks: u32,
    /// The highest block that is mapped, by its place in the volume.
    pub highest_block: Option<u32>,
}

// Writes a text behind what stands before `at`.
fn put(out: &mut [u8], at: usize, text: &[u8]) -> usize
    requires { at + length text.now ≤ length out.old }
    ensures line { take result out.new ≡ take at out.old ++ text.now }
    ensures end { result ≡ at + length text.now }
    ensures len { length out.new ≡ length out.old }
{
    let end = at + text.len();
    out[at..end].copy_from_slice(text);
    end
}

fn put_number(out: &mut [u8], at: usize, number: u64) -> usize
    requires { at + 20 ≤ length out.old }
    ensures line { take result out.new ≡ take at out.old ++ decimal number }
    ensures end { result ≤ at + 20 }
    ensures len { length out.new ≡ length out.old }
{
    let mut digits = Buffer::new();
    put(out, at, digits.format(number).as_bytes())
}

fn put_fraction(out: &mut [u8], at: usize, count: u32, total: u32) -> usize
    requires { at + 41 ≤ length out.old }
    ensures line { take result out.new ≡ take at out.old ++ fraction count total }
    ensures end { result ≤ at + 41 }
    ensures len { length out.new ≡ length out.old }
{
    let after_count = put_number(out, at, count as u64);
    let after_slash = put(out, after_count, b"/");
    put_number(out, after_slash, total as u64)
}

// The transaction id and what is used of both parts.
fn put_figures(out: &mut [u8], status: &PoolStatus) -> usize
    requires { 104 ≤ length out.old }
    ensures line { take result out.new ≡ figures status.now }
    ensures end { result ≤ 104 }
    ensures len { length out.new ≡ length out.old }
{
    let after_id = put_number(out, 0, status.transaction_id);
    let metadata = put(out, after_id, b" ");
    let after_metadata = put_fraction(out, metadata, status.used_metadata, status.metadata_blocks);
    let room = put(out, after_metadata, b" ");
    put_fraction(out, room, status.used_data, status.data_blocks)
}

fn mode_word_of(status: &PoolStatus) -> &'static str
    ensures word { result.now ≡ mode_word status.now }
    ensures short { length result.now ≤ 17 }
{
    match status.mode {
        Mode::Writable if status.used_data == status.data_blocks => "out_of_data_space",
        Mode::Writable => "rw",
        Mode::ReadOnly => "ro",
        Mode::Failed => "Fail",
    }
}

fn check_word_of(needs_check: bool) -> &'static str
    ensures word { result.now ≡ check_word needs_check }
    ensures short { length result.now ≤ 11 }
{
    if needs_check { "needs_check" } else { "-" }
}

// The number of the held root, which is a block's.
fn put_held(out: &mut [u8], at: usize, root: u32) -> usize
    requires { at + 10 ≤ length out.old }
    ensures line { take result out.new ≡ take at out.old ++ held_word root }
    ensures end { result ≤ at + 10 }
    ensures len { length out.new ≡ length out.old }
{
    if root == 0 {
        return put(out, at, b"-");
    }
    let mut digits = Buffer::new();
    put(out, at, digits.format(root).as_bytes())
}

// The line of a pool that is not failed.
fn put_open_line(out: &mut [u8], status: &PoolStatus) -> usize
    requires { 187 ≤ length out.old }
    ensures line { take result out.new ≡ open_line status.now }
    ensures end { result ≤ 187 }
{
    let after_figures = put_figures(out, status);
    let held = put(out, after_figures, b" ");
    let after_held = put_held(out, held, status.held_root);
    let mode = put(out, after_held, b" ");
    let after_mode = put(out, mode, mode_word_of(status).as_bytes());
    let check = put(out, after_mode, b" no_discard_passdown error_if_no_space ");
    let after_check = put(out, check, check_word_of(status.needs_check).as_bytes());
    put(out, after_check, b" 512")
}

/// A buffer that every status line fits.
pub type LineBuffer = [u8; 192];

/// Writes the line of a pool into a buffer, and answers its length; the bytes behind it are of no meaning. Every line fits.
/// A failed pool's line is `Fail`.
pub fn print_status(status: &PoolStatus, out: &mut LineBuffer) -> usize
    ensures line { take result out.new ≡ status_line status.now }
    ensures of_pool { (p : PlainPool) → TellsPool status.now p → take result out.new ≡ pool_line p }
    ensures fits { result ≤ 192 }
{
    match status.mode {
        Mode::Failed => put(out, 0, b"Fail"),
        Mode::Writable | Mode::ReadOnly => put_open_line(out, status),
    }
}

// The line of a volume of a pool that is not failed.
fn put_open_volume_line(out: &mut [u8], mapped: u64, highest: Option<u64>) -> usize
    requires { 41 ≤ length out.old }
    ensures line { take result out.new ≡ open_volume_line mapped highest }
    ensures end { result ≤ 41 }
{
    let after_mapped = put_number(out, 0, mapped);
    let last = put(out, after_mapped, b" ");
    match highest {
        Some(sector) => put_number(out, last, sector),
        None => put(out, last, b"-"),
    }
}

fn last_sector_of(block_sectors: u32, highest_block: Option<u32>) -> Option<u64>
    requires { 0 < block_sectors }
    ensures { result ≡ last_sector block_sectors highest_block }
{
    match highest_block {
        Some(block) => Some((block as u64 + 1) * block_sectors as u64 - 1),
        None => None,
    }
}

/// Writes the line of a volume into a buffer, and answers its length; the bytes behind it are of no meaning. Every line fits.
/// It tells how many sectors are mapped, and the last sector of the highest block that is. In a failed pool it is `Fail`.
pub fn print_thin(status: &VolumeStatus, out: &mut LineBuffer) -> usize
    requires sectors { 0 < status.now.block_sectors }
    ensures line { take result out.new ≡ thin_line status.now }
    ensures of_volume { (p : PlainPool) (id : ℕ) → TellsVolume status.now p id → take result out.new ≡ volume_line p id }
    ensures fits { result ≤ 192 }
{
    let mapped = status.mapped_blocks as u64 * status.block_sectors as u64;
    let highest = last_sector_of(status.block_sectors, status.highest_block);
    match status.mode {
        Mode::Failed => put(out, 0, b"Fail"),
        Mode::Writable | Mode::ReadOnly => put_open_volume_line(out, mapped, highest),
    }
}
