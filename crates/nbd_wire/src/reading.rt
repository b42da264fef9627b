//! Readers of the client's frames. A frame is judged only once its fixed part is there.

ghost use Rattle.std.specs.Prelude.{◌≡◌, ◌≤◌, ◌<◌, ◌+◌, length, take};
ghost use Rattle.nbd_wire.specs.Numbers.{number};
ghost use Rattle.nbd_wire.specs.Grammar.{IsFrame, IsPartial, payload_len};
ghost use Rattle.nbd_wire.specs.Reading.{fixed_len as fixed_of, wanted as bytes_wanted, whole_len as len_of_whole, option_at, request_at, message_at, message_of};

use crate::{
    COMMAND_WRITE, Frame, Kind, MAX_FRAME, MAX_OPTION, MAX_REQUEST, OPTION_MAGIC, REQUEST_MAGIC,
    Request,
};
use byteorder::{BigEndian, ByteOrder};

#[tactic(auto, unfolding(crate::specs::Numbers::number))]
pub(crate) fn u16_of(text: &[u8]) -> u16
    requires { 2 ≤ length text.now }
    ensures { result ≡ number 2 text.now }
{
    BigEndian::read_u16(text)
}

#[tactic(auto, unfolding(crate::specs::Numbers::number))]
pub(crate) fn u32_of(text: &[u8]) -> u32
    requires { 4 ≤ length text.now }
    ensures { result ≡ number 4 text.now }
{
    BigEndian::read_u32(text)
}

#[tactic(auto, unfolding(crate::specs::Numbers::number))]
pub(crate) fn u64_of(text: &[u8]) -> u64
    requires { 8 ≤ length text.now }
    ensures { result ≡ number 8 text.now }
{
    BigEndian::read_u64(text)
}

/// The fixed part of an option.
#[derive(Clone, Copy)]
struct OptionHead {
    magic: u64,
    option: u32,
    len: u32,
}

#[tactic(auto, unfolding(crate::specs::Reading::option_at))]
fn option_head(text: &[u8]) -> OptionHead
    requires { 16 ≤ length text.now }
    ensures magic { result.magic ≡ (option_at text.now).magic }
    ensures option { result.option ≡ (option_at text.now).option }
    ensures len { result.len ≡ (option_at text.now).len }
{
    let after_magic = &text[8..];
    let after_option = &after_magic[4..];
    OptionHead {
        magic: u64_of(text),
        option: u32_of(after_magic),
        len: u32_of(after_option),
    }
}

#[tactic(auto, unfolding(crate::specs::Reading::request_at))]
fn request_head(text: &[u8]) -> Request
    requires { 28 ≤ length text.now }
    ensures { result ≡ request_at text.now }
{
    let a = &text[4..];
    let b = &a[2..];
    let c = &b[2..];
    let d = &c[8..];
    let e = &d[8..];
    Request {
        flags: u16_of(a),
        kind: u16_of(b),
        cookie: u64_of(c),
        offset: u64_of(d),
        len: u32_of(e),
    }
}

fn payload_of(request: &Request) -> u32
    ensures { result ≡ payload_len request.now }
{
    if request.kind == COMMAND_WRITE {
        request.len
    } else {
        0
    }
}

/// How many bytes the fixed part of a frame has.
pub fn fixed_len(kind: Kind) -> usize
    ensures { result ≡ fixed_of kind }
{
    match kind {
        Kind::Flags => 4,
        Kind::Options => 16,
        Kind::Requests => 28,
    }
}

/// How many bytes the frame has whose fixed part stands at the front of the text. One that ends the connection has only
/// its fixed part.
#[tactic(auto, unfolding(crate::specs::Reading::whole_len))]
pub fn whole_len(kind: Kind, text: &[u8]) -> usize
    requires { fixed_of kind ≤ length text.now }
    ensures length { result ≡ len_of_whole kind text.now }
    ensures least { fixed_of kind ≤ result }
    ensures most { result ≤ MAX_FRAME }
{
    match kind {
        Kind::Flags => 4,
        Kind::Options => {
            let head = option_head(text);
            if head.magic == OPTION_MAGIC && head.len <= MAX_OPTION {
                16 + head.len as usize
            } else {
                16
            }
        }
        Kind::Requests => {
            let magic = u32_of(text);
            let request = request_head(text);
            let payload = payload_of(&request);
            if magic == REQUEST_MAGIC && payload <= MAX_REQUEST {
                28 + payload as usize
            } else {
                28
            }
        }
    }
}

#[tactic(auto, unfolding(crate::specs::Reading::whole_len, crate::specs::Reading::message_at))]
fn frame_at(kind: Kind, text: &[u8]) -> Frame<'_>
    requires fixed { fixed_of kind ≤ length text.now }
    requires whole { len_of_whole kind text.now ≤ length text.now }
    ensures { message_of result ≡ message_at kind text.now }
{
    match kind {
        Kind::Flags => match u32_of(text) {
            1 => Frame::ClientFlags { no_zeroes: false },
            3 => Frame::ClientFlags { no_zeroes: true },
            _ => Frame::Malformed,
        },
        Kind::Options => {
            let head = option_head(text);
            if head.magic == OPTION_MAGIC && head.len <= MAX_OPTION {
                let after = &text[16..];
                Frame::ClientOption {
                    option: head.option,
                    payload: &after[..head.len as usize],
                }
            } else {
                Frame::Malformed
            }
        }
        Kind::Requests => {
            let magic = u32_of(text);
            let request = request_head(text);
            let payload = payload_of(&request);
            if magic == REQUEST_MAGIC && payload <= MAX_REQUEST {
                let after = &text[28..];
                Frame::Command {
                    request,
                    payload: &after[..payload as usize],
                }
            } else {
                Frame::Malformed
            }
        }
    }
}

/// The frame at the front of a text that has all of it. What follows it is not looked at.
pub fn read_frame(kind: Kind, text: &[u8]) -> Frame<'_>
    requires fixed { fixed_of kind ≤ length text.now }
    requires whole { len_of_whole kind text.now ≤ length text.now }
    ensures { IsFrame kind (message_of result) (take (len_of_whole kind text.now) text.now) }
{
    frame_at(kind, text)
}

/// How many bytes must have come before the first frame can be read: those of the fixed part, and once it is there
/// those of the whole frame. A text shorter than that begins with no frame.
#[tactic(auto, unfolding(crate::specs::Reading::wanted))]
pub fn wanted(kind: Kind, text: &[u8]) -> usize
    ensures length { result ≡ bytes_wanted kind text.now }
    ensures partial { length text.now < result → IsPartial kind text.now }
    ensures whole { result ≤ length text.now → len_of_whole kind text.now ≡ result }
    ensures least { fixed_of kind ≤ result }
    ensures most { result ≤ MAX_FRAME }
{
    let fixed = fixed_len(kind);
    if text.len() < fixed {
        fixed
    } else {
        whole_len(kind, text)
    }
}
