//! One client of NBD by the rules of the protocol alone, over two volumes that are plain arrays.

ghost use Rattle.std.specs.Prelude.{◌<◌};

use std::alloc::{AllocError, Global};

/// Bytes of a data block.
const BLOCK: u64 = 65_536;

/// Blocks of a volume, its bytes, and those of both.
const BLOCKS: u64 = 4;

pub(crate) const VOLUME: u64 = 262_144;

const BOTH: usize = 524_288;

/// Data blocks of the pool.
pub(crate) const ROOM: u64 = 5;

/// The volumes 0 and 5, which together may have fewer data blocks than they have blocks. What has none is zeros.
#[derive(Drop)]
pub(crate) struct PlainPool {
    /// Both volumes, one behind the other.
    pub(crate) bytes: Vec<u8>,
    has_block: [bool; 8],
    pub(crate) is_read_only: bool,
    /// How many requests were answered with each error, and how many options.
    pub(crate) errors: [u64; 40],
    pub(crate) options: u64,
    /// How many clients were sent away, by their own wish or not.
    pub(crate) ends: u64,
}

/// What a client is at.
#[derive(Clone, Copy)]
enum Phase {
    Flags,
    Options { no_zeroes: bool },
    /// It holds the volume of this place.
    Requests { volume: u64 },
    Over,
}

/// What a client is at behind a frame, and how many bytes this has.
#[derive(Clone, Copy)]
struct Heard {
    phase: Phase,
    taken: usize,
}

/// What a request asks for, of the volume of this place.
#[derive(Clone, Copy)]
struct Request {
    flags: u64,
    kind: u64,
    offset: u64,
    len: u64,
    volume: u64,
}

/// The big-endian number of so many bytes at a place, or of those that are there.
fn number(text: &[u8], at: usize, width: usize) -> u64 {
    let mut value: u64 = 0;
    for byte in text.get(at..).unwrap_or(b"").iter().take(width) {
        value = value.wrapping_mul(256) | *byte as u64;
    }
    value
}

impl Request {
    /// Whether it has a byte of a block of its volume.
    fn touches(&self, block: u64) -> bool {
        let begin = BLOCK * (block % BLOCKS);
        self.offset < begin + BLOCK && begin < self.offset.saturating_add(self.len)
    }

    /// Whether it has all of them.
    fn covers(&self, block: u64) -> bool {
        let begin = BLOCK * (block % BLOCKS);
        self.offset <= begin && begin + BLOCK <= self.offset.saturating_add(self.len)
    }

    fn is_known(&self) -> bool {
        let allowed = if self.kind == 6 { 3 } else { 1 };
        matches!(self.kind, 0 | 1 | 3 | 4 | 6) && self.flags <= allowed
    }

    fn is_aligned(&self) -> bool {
        if self.kind == 3 {
            return self.offset == 0 && self.len == 0;
        }
        self.offset % 512 == 0 && self.len % 512 == 0
    }

    fn is_inside(&self) -> bool {
        self.offset <= VOLUME && self.len <= VOLUME - self.offset
    }

    fn writes(&self) -> bool {
        matches!(self.kind, 1 | 4 | 6)
    }

    /// The error of its form, or 0.
    fn form_error(&self) -> u32 {
        if !self.is_known() || !self.is_aligned() || self.len > 1_048_576 {
            return 22;
        }
        if self.is_inside() {
            return 0;
        }
        if self.kind == 1 || self.kind == 6 {
            28
        } else {
            22
        }
    }

    /// Where a block of its volume stands among those of both.
    fn slot(&self, block: u64) -> usize
        ensures { result < 8 }
    {
        (4 * (self.volume % 2) + block % BLOCKS) as usize
    }

    /// Where it begins and ends in the bytes of both volumes.
    fn range(&self) -> (usize, usize) {
        let begin = VOLUME
            .wrapping_mul(self.volume % 2)
            .saturating_add(self.offset);
        (begin as usize, begin.saturating_add(self.len) as usize)
    }
}

/// Writes from a place on, as far as there is one.
pub(crate) fn copy_in(bytes: &mut [u8], at: usize, from: &[u8]) {
    if let Some(to) = bytes.get_mut(at..) {
        let count = to.len().min(from.len());
        to[..count].copy_from_slice(&from[..count]);
    }
}

/// Makes so many bytes zero from a place on, as far as there is one.
fn blank(bytes: &mut [u8], at: usize, count: usize) {
    if let Some(to) = bytes.get_mut(at..) {
        let count = to.len().min(count);
        to[..count].fill(0);
    }
}

impl PlainPool {
    pub(crate) fn new(alloc: Global) -> Result<PlainPool, AllocError> {
        Ok(PlainPool {
            bytes: Vec::from_elem(alloc, 0, BOTH)?,
            has_block: [false; 8],
            is_read_only: false,
            errors: [0; 40],
            options: 0,
            ends: 0,
        })
    }

    fn used(&self) -> u64 {
        let mut used: u64 = 0;
        for has in &self.has_block {
            used = used.wrapping_add(*has as u64);
        }
        used
    }

    /// How many data blocks it takes that are not taken yet.
    fn need(&self, request: &Request) -> u64 {
        let mut need: u64 = 0;
        for block in 0..BLOCKS {
            let wants = request.touches(block) && !self.has_block[request.slot(block)];
            need = need.wrapping_add(wants as u64);
        }
        need
    }

    fn take_blocks(&mut self, request: &Request) {
        for block in 0..BLOCKS {
            if request.touches(block) {
                self.has_block[request.slot(block)] = true;
            }
        }
    }

    fn free_blocks(&mut self, request: &Request) {
        for block in 0..BLOCKS {
            if request.covers(block) {
                self.has_block[request.slot(block)] = false;
                self.zero(&Request {
                    offset: BLOCK * block,
                    len: BLOCK,
                    ..*request
                });
            }
        }
    }

    fn zero(&mut self, request: &Request) {
        let (begin, _) = request.range();
        blank(&mut self.bytes, begin, request.len as usize);
    }

    fn put(&mut self, request: &Request, payload: &[u8]) {
        let (begin, _) = request.range();
        copy_in(&mut self.bytes, begin, payload);
    }

    /// Does what a request with no error so far asks for: the error.
    fn perform(&mut self, request: &Request, payload: &[u8]) -> u32 {
        if self.is_read_only && request.writes() {
            return 1;
        }
        let takes = request.kind == 1 || (request.kind == 6 && request.flags >= 2);
        if takes && self.used().saturating_add(self.need(request)) > ROOM {
            return 28;
        }
        if takes {
            self.take_blocks(request);
        }
        match request.kind {
            1 => self.put(request, payload),
            4 => self.free_blocks(request),
            6 => self.zero(request),
            _ => {}
        }
        if request.kind == 6 && !takes {
            self.free_blocks(request);
        }
        0
    }
}

/// Sends a number of so many bytes.
fn send(out: &mut Vec<u8>, width: usize, number: u64) -> Result<(), AllocError> {
    let bytes = number.to_be_bytes();
    out.extend_from_slice(&bytes[8 - width.min(8)..])
}

fn send_reply(
    pool: &mut PlainPool,
    out: &mut Vec<u8>,
    option: u64,
    kind: u64,
    payload: &[u8],
) -> Result<(), AllocError> {
    pool.options = pool.options.wrapping_add(1);
    send(out, 8, 0x3_e889_0455_65a9)?;
    send(out, 8, option.wrapping_mul(0x1_0000_0000) | kind)?;
    send(out, 4, payload.len() as u64)?;
    out.extend_from_slice(payload)
}

/// Sends a reply of this kind without data, by which no volume is chosen.
fn send_none(
    pool: &mut PlainPool,
    out: &mut Vec<u8>,
    option: u64,
    kind: u64,
) -> Result<Option<u64>, AllocError> {
    send_reply(pool, out, option, kind, b"")?;
    Ok(None)
}

/// The place of the volume of a name.
fn volume_of(name: &[u8]) -> Option<u64> {
    match name {
        b"0" => Some(0),
        b"5" => Some(1),
        _ => None,
    }
}

/// The name in the data of INFO and GO, where they have their form.
fn name_in(payload: &[u8]) -> Option<&[u8]> {
    let behind = (number(payload, 0, 4) as usize).saturating_add(4);
    let types = (number(payload, behind, 2) as usize).saturating_mul(2);
    if payload.len() == behind.saturating_add(2).saturating_add(types) {
        payload.get(4..behind)
    } else {
        None
    }
}

fn transmission_flags(pool: &PlainPool) -> u64 {
    if pool.is_read_only { 0x6f } else { 0x6d }
}

/// Answers EXPORT_NAME: the volume.
fn export(
    pool: &PlainPool,
    name: &[u8],
    no_zeroes: bool,
    out: &mut Vec<u8>,
) -> Result<Option<u64>, AllocError> {
    let volume = volume_of(name);
    if volume.is_none() {
        return Ok(None);
    }
    send(out, 8, VOLUME)?;
    send(out, 2, transmission_flags(pool))?;
    if !no_zeroes {
        out.extend_from_slice(&[0; 124])?;
    }
    Ok(volume)
}

/// Answers LIST, by which no volume is chosen.
fn list(
    pool: &mut PlainPool,
    payload: &[u8],
    out: &mut Vec<u8>,
) -> Result<Option<u64>, AllocError> {
    if payload.len() > 0 {
        return send_none(pool, out, 3, 0x8000_0003);
    }
    send_reply(pool, out, 3, 2, b"\0\0\0\x010")?;
    send_reply(pool, out, 3, 2, b"\0\0\0\x015")?;
    send_none(pool, out, 3, 1)
}

/// The volume that INFO and GO name, or the kind of the reply that none has this name.
fn named_in(payload: &[u8]) -> Result<u64, u64> {
    match name_in(payload) {
        Some(name) => match volume_of(name) {
            Some(volume) => Ok(volume),
            None => Err(0x8000_0006),
        },
        None => Err(0x8000_0003),
    }
}

/// Sends all that is told of a volume.
fn send_infos(pool: &mut PlainPool, out: &mut Vec<u8>, option: u64) -> Result<(), AllocError> {
    let flags = if pool.is_read_only { 0x6f } else { 0x6d };
    let size = [0, 0, 0, 0, 0, 0, 0, 4, 0, 0, 0, flags];
    let block: &[u8] = b"\0\x03\0\0\x02\0\0\0\x10\0\0\x10\0\0";
    send_reply(pool, out, option, 3, &size)?;
    send_reply(pool, out, option, 3, block)?;
    send_reply(pool, out, option, 1, b"")
}

/// Answers INFO and GO: the volume, if one is named.
fn inform(
    pool: &mut PlainPool,
    option: u64,
    payload: &[u8],
    out: &mut Vec<u8>,
) -> Result<Option<u64>, AllocError> {
    match named_in(payload) {
        Ok(volume) => {
            send_infos(pool, out, option)?;
            Ok(Some(volume))
        }
        Err(kind) => send_none(pool, out, option, kind),
    }
}

/// Answers an option: the volume, if it names one.
fn answer(
    pool: &mut PlainPool,
    option: u64,
    payload: &[u8],
    no_zeroes: bool,
    out: &mut Vec<u8>,
) -> Result<Option<u64>, AllocError> {
    match option {
        1 => export(pool, payload, no_zeroes, out),
        2 => send_none(pool, out, option, 1),
        3 => list(pool, payload, out),
        6 | 7 => inform(pool, option, payload, out),
        _ => send_none(pool, out, option, 0x8000_0001),
    }
}

/// What a client is at behind an option that named this volume, or none.
fn phase_behind(option: u64, volume: Option<u64>, no_zeroes: bool) -> Phase {
    match volume {
        Some(volume) if option != 6 => Phase::Requests { volume },
        None if option == 1 || option == 2 => Phase::Over,
        _ => Phase::Options { no_zeroes },
    }
}

/// Answers an option: what the client is at then.
fn answer_option(
    pool: &mut PlainPool,
    option: u64,
    payload: &[u8],
    no_zeroes: bool,
    out: &mut Vec<u8>,
) -> Result<Phase, AllocError> {
    let volume = answer(pool, option, payload, no_zeroes, out)?;
    Ok(phase_behind(option, volume, no_zeroes))
}

/// The end of a client at its so many first bytes.
fn over(taken: usize) -> Option<Heard> {
    Some(Heard {
        phase: Phase::Over,
        taken,
    })
}

fn hear_flags(text: &[u8]) -> Option<Heard> {
    if text.len() < 4 {
        return None;
    }
    let flags = number(text, 0, 4);
    if flags % 2 == 0 || flags > 3 {
        return over(4);
    }
    Some(Heard {
        phase: Phase::Options {
            no_zeroes: flags == 3,
        },
        taken: 4,
    })
}

/// The magic, the number and the length of an option.
fn option_in(text: &[u8]) -> Option<(u64, u64, usize)> {
    if text.len() < 16 {
        return None;
    }
    let len = number(text, 12, 4) as usize;
    Some((number(text, 0, 8), number(text, 8, 4), len))
}

fn hear_option(
    pool: &mut PlainPool,
    text: &[u8],
    no_zeroes: bool,
    out: &mut Vec<u8>,
) -> Result<Option<Heard>, AllocError> {
    let Some((magic, option, len)) = option_in(text) else {
        return Ok(None);
    };
    if magic != 0x4948_4156_454f_5054 || len > 8192 {
        return Ok(over(16));
    }
    let taken = len.saturating_add(16);
    let Some(payload) = text.get(16..taken) else {
        return Ok(None);
    };
    let phase = answer_option(pool, option, payload, no_zeroes, out)?;
    Ok(Some(Heard { phase, taken }))
}

/// The magic and the cookie of a request, and what it asks for.
fn request_in(text: &[u8], volume: u64) -> Option<(u64, u64, Request)> {
    if text.len() < 28 {
        return None;
    }
    let request = Request {
        flags: number(text, 4, 2),
        kind: number(text, 6, 2),
        offset: number(text, 16, 8),
        len: number(text, 24, 4),
        volume,
    };
    Some((number(text, 0, 4), number(text, 8, 8), request))
}

/// Does what a request asks for: the error, which is counted.
fn error_of(pool: &mut PlainPool, request: &Request, payload: &[u8]) -> u32 {
    let form = request.form_error();
    let is_nothing = request.len == 0 && request.kind != 3;
    let error = if form > 0 || is_nothing {
        form
    } else {
        pool.perform(request, payload)
    };
    let place = error as usize % 40;
    pool.errors[place] = pool.errors[place].wrapping_add(1);
    error
}

/// Answers a request.
fn answer_request(
    pool: &mut PlainPool,
    request: &Request,
    cookie: u64,
    payload: &[u8],
    out: &mut Vec<u8>,
) -> Result<(), AllocError> {
    let error = error_of(pool, request, payload);
    send(out, 8, 0x6744_6698_0000_0000 | error as u64)?;
    send(out, 8, cookie)?;
    if error > 0 || request.kind > 0 {
        return Ok(());
    }
    let (begin, end) = request.range();
    out.extend_from_slice(pool.bytes.get(begin..end).unwrap_or(b""))
}

fn hear_request(
    pool: &mut PlainPool,
    text: &[u8],
    volume: u64,
    out: &mut Vec<u8>,
) -> Result<Option<Heard>, AllocError> {
    let Some((magic, cookie, request)) = request_in(text, volume) else {
        return Ok(None);
    };
    let is_write = request.kind == 1;
    if magic != 0x2560_9513 || (is_write && request.len > 1_048_576) {
        return Ok(over(28));
    }
    let behind = if is_write {
        request.len.saturating_add(28) as usize
    } else {
        28
    };
    let Some(payload) = text.get(28..behind) else {
        return Ok(None);
    };
    if request.kind == 2 {
        return Ok(over(28));
    }
    answer_request(pool, &request, cookie, payload, out)?;
    Ok(Some(Heard {
        phase: Phase::Requests { volume },
        taken: behind,
    }))
}

/// Hears the frame with which a text begins, where it is whole.
fn hear(
    pool: &mut PlainPool,
    phase: &Phase,
    text: &[u8],
    out: &mut Vec<u8>,
) -> Result<Option<Heard>, AllocError> {
    match *phase {
        Phase::Flags => Ok(hear_flags(text)),
        Phase::Options { no_zeroes } => hear_option(pool, text, no_zeroes, out),
        Phase::Requests { volume } => hear_request(pool, text, volume, out),
        Phase::Over => Ok(None),
    }
}

fn is_over(phase: &Phase) -> bool {
    matches!(*phase, Phase::Over)
}

/// Serves a client that sends this text and goes: what it is sent is added, with the greeting.
pub(crate) fn serve(
    pool: &mut PlainPool,
    text: &[u8],
    out: &mut Vec<u8>,
) -> Result<(), AllocError> {
    out.extend_from_slice(b"NBDMAGICIHAVEOPT\0\x03")?;
    let mut phase = Phase::Flags;
    let mut at: usize = 0;
    for _ in 0..text.len() {
        let rest = text.get(at..).unwrap_or(b"");
        let Some(heard) = hear(pool, &phase, rest, out)? else {
            break;
        };
        let Heard { phase: next, taken } = heard;
        phase = next;
        at = at.saturating_add(taken);
    }
    pool.ends = pool.ends.wrapping_add(is_over(&phase) as u64);
    Ok(())
}
