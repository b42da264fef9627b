//! The tests of a request, in order, before a pool is asked.

ghost use Rattle.std.specs.Prelude.{◌≡◌, ◌⊎◌, IfNone, if◌then◌else◌, true};
ghost use Rattle.tp_model.specs.Requests.{form_error};
ghost use Rattle.tp_model.specs.declared.refusal.NbdError.TheVariants.{Invalid, NoSpace};
ghost use Rattle.nbd_session.specs.Requests.{IsForSectors, IsLeft, IsTested, IsWhole, form_of, has_context, is_chunked, is_long, is_look, is_status, long_error, plainly, reads_in_chunks, status_error, verdict_in, verdict_on, without_df};

use crate::phase::{Manner, NO_VOLUME};
use nbd_wire::{
    COMMAND_BLOCK_STATUS, COMMAND_DISC, COMMAND_FLUSH, COMMAND_READ, COMMAND_TRIM, COMMAND_WRITE,
    COMMAND_WRITE_ZEROES, Request,
};
use tp_model::NbdError;

/// What becomes of a request.
#[derive(Clone, Copy, Debug, PartialEq, Eq)]
pub enum Verdict {
    /// An error, before the pool is asked.
    Refuse(NbdError),
    /// Nothing is to be done.
    Nothing,
    /// Sectors are to be read.
    Read,
    /// Sectors are to be written.
    Write,
    /// The data blocks of blocks that lie wholly in a range are to be taken.
    Trim,
    /// Sectors are to be zero.
    WriteZeroes,
    /// All that was done is to be kept.
    Flush,
    /// The session ends.
    Disconnect,
    /// The parts of a long request are to be made.
    Long,
    /// Where there is data, or where it may differ from an older volume, is to be told.
    Status,
}

/// The error of the first test that fails, for a volume of so many bytes.
fn error_of(size: u64, request: &Request) -> Option<NbdError>
    ensures error { result ≡ form_error size (form_of request.now) }
    ensures passed { IfNone result ((request.now.kind ≡ COMMAND_FLUSH) ⊎ (IsWhole size request.now × IsForSectors request.now)) }
{
    let kind = request.kind;
    let is_write_zeroes = kind == COMMAND_WRITE_ZEROES;
    let is_known = kind == COMMAND_READ
        || kind == COMMAND_WRITE
        || kind == COMMAND_FLUSH
        || kind == COMMAND_TRIM
        || is_write_zeroes;
    let flags = if is_write_zeroes { 4 } else { 2 };
    if !is_known || request.flags >= flags {
        return Some(NbdError::Invalid);
    }
    let is_aligned = if kind == COMMAND_FLUSH {
        request.offset == 0 && request.len == 0
    } else {
        request.offset % 512 == 0 && request.len % 512 == 0
    };
    if !is_aligned || request.len > 1_048_576 {
        return Some(NbdError::Invalid);
    }
    if request.offset > size || request.len as u64 > size - request.offset {
        return Some(if kind == COMMAND_WRITE || is_write_zeroes {
            NbdError::NoSpace
        } else {
            NbdError::Invalid
        });
    }
    None
}

/// What becomes of a request, for a volume of so many bytes.
pub fn judge(size: u64, request: &Request) -> Verdict
    ensures verdict { result ≡ verdict_on size request.now }
    ensures tested { IsTested result size request.now }
{
    if request.kind == COMMAND_DISC {
        return Verdict::Disconnect;
    }
    if let Some(error) = error_of(size, request) {
        return Verdict::Refuse(error);
    }
    if request.kind == COMMAND_FLUSH {
        Verdict::Flush
    } else if request.len == 0 {
        Verdict::Nothing
    } else if request.kind == COMMAND_READ {
        Verdict::Read
    } else if request.kind == COMMAND_WRITE {
        Verdict::Write
    } else if request.kind == COMMAND_TRIM {
        Verdict::Trim
    } else {
        Verdict::WriteZeroes
    }
}

/// Whether a request has no data, and is longer than 1 MiB.
fn is_long(request: &Request) -> bool
    ensures { result ≡ is_long request.now }
{
    request.len > 1_048_576
        && (request.kind == COMMAND_TRIM || request.kind == COMMAND_WRITE_ZEROES)
}

/// The error of the first test of a long request that fails, for a volume of so many bytes: those of any request, but for that of the length.
fn long_error_of(size: u64, request: &Request) -> Option<NbdError>
    requires long { is_long request.now ≡ true }
    ensures error { result ≡ long_error size (form_of request.now) }
    ensures passed { IfNone result (IsLeft size request.now) }
{
    let is_write_zeroes = request.kind == COMMAND_WRITE_ZEROES;
    let flags = if is_write_zeroes { 4 } else { 2 };
    if request.flags >= flags {
        return Some(NbdError::Invalid);
    }
    if request.offset % 512 != 0 || request.len % 512 != 0 {
        return Some(NbdError::Invalid);
    }
    if request.offset > size || request.len as u64 > size - request.offset {
        return Some(error_past_end(is_write_zeroes));
    }
    None
}

/// The error of a long request past the end of its volume.
fn error_past_end(is_write_zeroes: bool) -> NbdError
    ensures { result ≡ (if is_write_zeroes then NoSpace else Invalid) }
{
    if is_write_zeroes {
        NbdError::NoSpace
    } else {
        NbdError::Invalid
    }
}

/// Whether a READ is answered in chunks.
fn reads_in_chunks(manner: Manner, request: &Request) -> bool
    ensures { result ≡ reads_in_chunks manner request.now }
{
    manner.is_structured && request.kind == COMMAND_READ
}

/// Whether a request is answered in chunks.
pub(crate) fn is_chunked(manner: Manner, request: &Request) -> bool
    ensures { result ≡ is_chunked manner request.now }
{
    manner.is_structured && (request.kind == COMMAND_READ || request.kind == COMMAND_BLOCK_STATUS)
}

/// Whether the volume is to be told of in any context.
fn has_context(manner: Manner) -> bool
    ensures { result ≡ has_context manner }
{
    manner.tells_blocks || manner.since < NO_VOLUME
}

/// Whether a request is a BLOCK_STATUS that is answered.
fn is_status(manner: Manner, request: &Request) -> bool
    ensures { result ≡ is_status manner request.now }
{
    has_context(manner) && request.kind == COMMAND_BLOCK_STATUS
}

/// Whether a request looks at its volume and changes nothing: a READ, or a BLOCK_STATUS.
pub(crate) fn is_look(request: &Request) -> bool
    ensures { result ≡ is_look request.now }
{
    request.kind == COMMAND_READ || request.kind == COMMAND_BLOCK_STATUS
}

/// The error of the first test of a BLOCK_STATUS that fails, for a volume of so many bytes.
fn status_error_of(size: u64, request: &Request) -> Option<NbdError>
    ensures error { result ≡ status_error size request.now }
    ensures passed { IfNone result (IsLeft size request.now) }
{
    if request.flags % 8 >= 2 || request.flags >= 16 {
        return Some(NbdError::Invalid);
    }
    if request.offset % 512 != 0 || request.len % 512 != 0 {
        return Some(NbdError::Invalid);
    }
    if request.len == 0 {
        return Some(NbdError::Invalid);
    }
    if request.offset > size || request.len as u64 > size - request.offset {
        return Some(NbdError::Invalid);
    }
    None
}

/// A request as its tests take it: without the flag DF, where it may have that.
fn plainly(manner: Manner, request: &Request) -> Request
    ensures { result ≡ plainly manner request.now }
{
    if reads_in_chunks(manner, request) {
        return Request {
            flags: without_df(request.flags),
            ..*request
        };
    }
    *request
}

/// Command flags without DF, the third.
fn without_df(flags: u16) -> u16
    ensures { result ≡ without_df flags }
{
    if flags / 4 % 2 == 1 { flags - 4 } else { flags }
}

/// What becomes of a request that is taken in this manner.
pub fn judge_in(manner: Manner, size: u64, request: &Request) -> Verdict
    ensures verdict { result ≡ verdict_in manner size request.now }
    ensures tested { IsTested result size request.now }
{
    if is_status(manner, request) {
        return match status_error_of(size, request) {
            Some(error) => Verdict::Refuse(error),
            None => Verdict::Status,
        };
    }
    if manner.is_extended && is_long(request) {
        return match long_error_of(size, request) {
            Some(error) => Verdict::Refuse(error),
            None => Verdict::Long,
        };
    }
    judge(size, &plainly(manner, request))
}
