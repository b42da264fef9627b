//! How much of what a client sends is taken before others may have the pool, and what it begins with.

ghost use Rattle.std.specs.Prelude.{◌≡◌, ◌<◌, ◌≤◌, false, length};
ghost use Rattle.nbd_wire.specs.Reading.{message_of, wanted};
ghost use Rattle.nbd_session.specs.Batches.{BeginsAlone, IsBatch, IsNext, front_len, is_alone};
ghost use Rattle.nbd_session.specs.Requests.{IsKindOf, kind_of_message, kind_of_request};

use crate::request::is_look;
use nbd_wire::{COMMAND_FLUSH, Frame, Kind, OPTION_LIST, Request, read_frame, wanted};

/// At most so many frames of a client are taken one behind another.
const MOST_FRAMES: u32 = 16;

/// What stands whole at the front of a piece. None of its tests is made.
#[derive(Clone, Copy, Debug, PartialEq, Eq)]
pub enum PieceKind {
    /// A READ or a BLOCK_STATUS, which may be answered beside others.
    Look,
    /// A FLUSH.
    Flush,
    /// Anything else, or no whole request.
    Other,
}

fn kind_of_request(request: &Request) -> PieceKind
    ensures { result ≡ kind_of_request request.now }
{
    if is_look(request) {
        PieceKind::Look
    } else if request.kind == COMMAND_FLUSH {
        PieceKind::Flush
    } else {
        PieceKind::Other
    }
}

fn kind_of_frame(frame: Frame<'_>) -> PieceKind
    ensures { result ≡ kind_of_message (message_of frame.entry) }
{
    match frame {
        Frame::Command { request, .. } => kind_of_request(&request),
        _ => PieceKind::Other,
    }
}

/// What stands whole at the front of a piece of a session in transmission that holds no part of a
/// frame. Where it is no `Look` no session answers the piece by a shared read or walk.
pub fn kind_of_piece(piece: &[u8]) -> PieceKind
    ensures { IsKindOf piece.now result }
{
    let length = wanted(Kind::Requests, piece);
    if length > piece.len() {
        return PieceKind::Other;
    }
    kind_of_frame(read_frame(Kind::Requests, &piece[..length]))
}

/// The first frame of a piece, as far as the piece has it.
#[derive(Clone, Copy)]
struct Front {
    len: usize,
    /// Others may have the pool before and behind it.
    is_alone: bool,
}

/// Whether a frame is taken alone: LIST, which tells of all volumes, and FLUSH, which waits for the disk.
fn is_alone(frame: Frame<'_>) -> bool
    ensures { result ≡ is_alone (message_of frame.entry) }
{
    match frame {
        Frame::ClientOption { option, .. } => option == OPTION_LIST,
        Frame::Command { request, .. } => request.kind == COMMAND_FLUSH,
        Frame::ClientFlags { .. } | Frame::Malformed => false,
    }
}

/// The first frame of a piece of frames of this kind.
fn front_of(kind: Kind, piece: &[u8]) -> Front
    ensures len { result.len ≡ front_len kind piece.now }
    ensures joined { result.is_alone ≡ false → BeginsAlone kind piece.now → ⊥ }
    ensures most { result.len ≤ length piece.now }
    ensures some { 0 < length piece.now → 0 < result.len }
{
    let length = wanted(kind, piece);
    if length > piece.len() {
        return Front {
            len: piece.len(),
            is_alone: false,
        };
    }
    Front {
        len: length,
        is_alone: is_alone(read_frame(kind, &piece[..length])),
    }
}

/// How many bytes the first frames of a piece have that are taken one behind another.
fn batch_len(kind: Kind, piece: &[u8]) -> usize
    ensures few { IsBatch kind piece.now result }
    ensures most { result ≤ length piece.now }
    ensures some { 0 < length piece.now → 0 < result }
{
    let mut at = 0;
    for count in 0..MOST_FRAMES {
        let front = front_of(kind, &piece[at..]);
        if front.is_alone {
            return if at == 0 { front.len } else { at };
        }
        at += front.len;
    }
    at
}

/// The same for a session that holds so much of a frame. Where it holds some, it takes no more than it is known to want of that frame.
pub fn next_len(kind: Kind, held: &[u8], piece: &[u8]) -> usize
    requires { length held.now < wanted kind held.now }
    ensures few { IsNext kind held.now piece.now result }
    ensures most { result ≤ length piece.now }
    ensures some { 0 < length piece.now → 0 < result }
{
    if held.is_empty() {
        return batch_len(kind, piece);
    }
    (wanted(kind, held) - held.len()).min(piece.len())
}
