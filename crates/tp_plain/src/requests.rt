//! Ranges of sectors, and the tests that a request on the wire meets before those of the pool.
ghost use Rattle.std.specs.Prelude.{◌≡◌, ◌<◌, ◌≤◌, ◌+◌, ◌^◌};
ghost use Rattle.tp_model.specs.Calls as calls;
ghost use Rattle.tp_model.specs.Requests as wire;
ghost use Rattle.tp_plain.specs.Asked.{asked, has_good_form};

use tp_model::NbdError;

/// Whether a range of sectors holds a sector of the block.
pub fn touches(block_sectors: u64, sector: u64, count: u64, block: u64) -> bool
    requires sectors { block_sectors ≤ 2048 }
    requires block { block < 2 ^ 24 }
    requires range { sector + count < 2 ^ 60 }
    ensures { result ≡ calls.touches (record { block_sectors = block_sectors; virtual_blocks = 0; metadata_blocks = 0; data_blocks = 0 }) sector count block }
{
    let first = block * block_sectors;
    count > 0 && sector < first + block_sectors && first < sector + count
}

/// Whether it holds each sector of the block.
pub fn covers(block_sectors: u64, sector: u64, count: u64, block: u64) -> bool
    requires sectors { block_sectors ≤ 2048 }
    requires block { block < 2 ^ 24 }
    requires range { sector + count < 2 ^ 60 }
    ensures { result ≡ calls.covers (record { block_sectors = block_sectors; virtual_blocks = 0; metadata_blocks = 0; data_blocks = 0 }) sector count block }
{
    let first = block * block_sectors;
    sector <= first && first + block_sectors <= sector + count
}

/// A request as it stands on the wire: offset and length in bytes.
#[derive(Clone, Copy, Debug)]
pub struct Request {
    pub kind: u16,
    pub flags: u16,
    pub offset: u64,
    pub bytes: u32,
}

const READ: u16 = 0;

const WRITE: u16 = 1;

const FLUSH: u16 = 3;

const TRIM: u16 = 4;

const WRITE_ZEROES: u16 = 6;

const MOST_BYTES: u32 = 1_048_576;

fn has_good_form(request: &Request) -> bool
    ensures { result ≡ has_good_form (asked request.now) }
{
    let most_flags = if request.kind == WRITE_ZEROES { 4 } else { 2 };
    let is_known = matches!(request.kind, READ | WRITE | FLUSH | TRIM | WRITE_ZEROES);
    let is_aligned = if request.kind == FLUSH {
        request.offset == 0 && request.bytes == 0
    } else {
        request.offset % 512 == 0 && request.bytes % 512 == 0
    };
    is_known && request.flags < most_flags && is_aligned
}

/// The error of the first test that fails, for a volume of this many bytes.
pub fn form_error(size: u64, request: &Request) -> Option<NbdError>
    ensures { result ≡ wire.form_error size (asked request.now) }
{
    if !has_good_form(request) || request.bytes > MOST_BYTES {
        return Some(NbdError::Invalid);
    }
    if request.offset <= size && request.bytes as u64 <= size - request.offset {
        return None;
    }
    match request.kind {
        WRITE | WRITE_ZEROES => Some(NbdError::NoSpace),
        _ => Some(NbdError::Invalid),
    }
}
