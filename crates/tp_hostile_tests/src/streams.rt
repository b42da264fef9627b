//! What clients are sent, however they break off, and what their volumes hold then.

ghost use Rattle.std.specs.Prelude.{◌≡◌, [], IfOk};

use crate::frames::{Asked, READ, add_first, add_option, add_request};
use crate::plain::{PlainPool, VOLUME, copy_in, serve};
use crate::random::{Random, make_text, piece_of};
use crate::told::told_by_check;
use nbd_session::Profile;
use std::alloc::{AllocError, Global};
use std::test::Fail;
use tp_disk::MemDisk;
use tp_hub::{Answers, Event, Hub, Mark};
use tp_meta::Meta;
use tp_model::{DevId, Geometry, Refusal};
use tp_msg::Managed;
use tp_pool::Pool;
use tp_samples::{MemPool, close, closed, read, write};

/// A pool of volumes of four blocks over five data blocks.
fn formatted(alloc: Global) -> Result<MemPool, Refusal>
    ensures { IfOk result (λ pool. pool.holders ≡ []) }
{
    let geometry = Geometry::new(128, 4, 1032, 5)?;
    let Ok(disk) = MemDisk::new(alloc, geometry.image_sectors()) else {
        return Err(Refusal::Memory);
    };
    match Pool::<MemDisk, Meta>::format(alloc, disk, geometry) {
        Ok(pool) => Ok(pool),
        Err((refusal, _)) => Err(refusal),
    }
}

fn create_two(pool: &mut MemPool) -> Result<(), Refusal>
    ensures { pool.new.holders ≡ pool.old.holders }
{
    pool.create_thin(DevId::new(0))?;
    pool.create_thin(DevId::new(5))
}

/// The same pool with the volumes 0 and 5.
fn two_volumes(alloc: Global) -> Result<MemPool, Refusal>
    ensures { IfOk result (λ pool. pool.holders ≡ []) }
{
    let mut pool = formatted(alloc)?;
    create_two(&mut pool)?;
    Ok(pool)
}

/// A hub of a pool that nobody holds a volume of.
fn hub_of(pool: MemPool) -> Hub<MemPool>
    requires { pool.holders ≡ [] }
{
    let hub = Hub::new(pool);
    hub
}

/// What a client is sent by a hub, and what it should be.
#[derive(Drop)]
struct Heard {
    out: Answers,
    sent: Vec<u8>,
    wanted: Vec<u8>,
    /// Whether its session was ended, and not by its going.
    is_over: bool,
    /// Pieces that hubs took.
    pieces: u64,
}

impl Heard {
    fn new(alloc: Global) -> Heard {
        Heard {
            out: Answers::of_a_turn(alloc),
            sent: Vec::new(alloc),
            wanted: Vec::new(alloc),
            is_over: false,
            pieces: 0,
        }
    }

    /// Adds what a hub answered.
    fn take(&mut self) -> Result<(), AllocError> {
        let is_over = has_end(self.out.marks());
        self.is_over |= is_over;
        self.sent.extend_from_slice(self.out.bytes())?;
        self.out.clear();
        Ok(())
    }
}

/// Whether a session was ended.
fn has_end(marks: &[Mark]) -> bool {
    for mark in marks {
        if matches!(*mark, Mark::End { .. }) {
            return true;
        }
    }
    false
}

/// A client comes.
fn open<V: Managed>(alloc: Global, hub: &mut Hub<V>, heard: &mut Heard) -> Result<(), AllocError> {
    heard.sent.clear();
    heard.is_over = false;
    hub.run(alloc, &[Event::Open(0, Profile::Strict)], &mut heard.out);
    heard.take()
}

/// It sends a piece: how much of it is taken.
fn send<V: Managed>(
    alloc: Global,
    hub: &mut Hub<V>,
    piece: &[u8],
    heard: &mut Heard,
) -> Result<usize, AllocError> {
    let ran = hub.run(alloc, &[Event::Bytes(0, piece)], &mut heard.out);
    heard.pieces = heard.pieces.wrapping_add(1);
    heard.take()?;
    Ok(if ran.events > 0 {
        piece.len()
    } else {
        ran.bytes
    })
}

/// It goes.
fn hang_up<V: Managed>(alloc: Global, hub: &mut Hub<V>, heard: &mut Heard) {
    hub.run(alloc, &[Event::Hangup(0)], &mut heard.out);
    heard.out.clear();
}

/// A client comes, sends a text in pieces, and goes.
fn visit<V: Managed>(
    alloc: Global,
    hub: &mut Hub<V>,
    text: &[u8],
    cuts: &mut Random,
    heard: &mut Heard,
) -> Result<(), AllocError> {
    open(alloc, hub, heard)?;
    let mut at: usize = 0;
    for _ in 0..text.len() {
        let rest = text.get(at..).unwrap_or(b"");
        if rest.len() == 0 || heard.is_over {
            break;
        }
        let piece = rest.get(..piece_of(cuts)).unwrap_or(rest);
        at = at.saturating_add(send(alloc, hub, piece, heard)?);
    }
    hang_up(alloc, hub, heard);
    Ok(())
}

/// Whether such a client is sent by a hub what the rules say.
fn is_served<V: Managed>(
    alloc: Global,
    hub: &mut Hub<V>,
    plain: &mut PlainPool,
    text: &[u8],
    cuts: &mut Random,
    heard: &mut Heard,
) -> Result<bool, AllocError> {
    visit(alloc, hub, text, cuts, heard)?;
    heard.wanted.clear();
    let ends = plain.ends;
    serve(plain, text, &mut heard.wanted)?;
    let is_over = plain.ends > ends;
    Ok(heard.is_over == is_over && heard.sent.as_slice() == heard.wanted.as_slice())
}

/// Adds what a client sends that reads the volume of a name of one digit.
fn add_reader(text: &mut Vec<u8>, name: u8) -> Result<(), AllocError> {
    text.extend_from_slice(b"\0\0\0\x03")?;
    add_option(text, 7, &[0, 0, 0, 1, name, 0, 0])?;
    let asked = Asked {
        flags: 0,
        kind: READ,
        cookie: 9,
        offset: 0,
        len: VOLUME as u32,
    };
    add_request(text, &asked)
}

fn reader(alloc: Global, name: u8) -> Result<Vec<u8>, AllocError> {
    let mut text = Vec::new(alloc);
    add_reader(&mut text, name)?;
    Ok(text)
}

/// Texts of clients: one that is made anew each time, room for its parts, and those that read either volume.
#[derive(Drop)]
struct Texts {
    text: Vec<u8>,
    payload: Vec<u8>,
    readers: [Vec<u8>; 2],
    /// The bytes of all that were made.
    bytes: u64,
}

/// Whether one more client, which is made of random numbers, is served as the rules say, and what both volumes hold behind it is what they say.
fn is_next_served<V: Managed>(
    alloc: Global,
    hub: &mut Hub<V>,
    plain: &mut PlainPool,
    random: &mut Random,
    texts: &mut Texts,
    heard: &mut Heard,
) -> Result<bool, AllocError> {
    make_text(random, &mut texts.text, &mut texts.payload)?;
    texts.bytes = texts.bytes.wrapping_add(texts.text.len() as u64);
    let served = is_served(alloc, hub, plain, &texts.text, random, heard)?;
    let first = is_served(alloc, hub, plain, &texts.readers[0], random, heard)?;
    let second = is_served(alloc, hub, plain, &texts.readers[1], random, heard)?;
    Ok(served && first && second)
}

/// The first of so many clients that is not.
fn first_unserved<V: Managed>(
    alloc: Global,
    hub: &mut Hub<V>,
    plain: &mut PlainPool,
    random: &mut Random,
    texts: &mut Texts,
    heard: &mut Heard,
    clients: u64,
) -> Result<Option<u64>, AllocError> {
    for number in 0..clients {
        if !is_next_served(alloc, hub, plain, random, texts, heard)? {
            return Ok(Some(number));
        }
    }
    Ok(None)
}

fn no_texts(alloc: Global) -> Result<Texts, AllocError> {
    let first = reader(alloc, b'0')?;
    let second = reader(alloc, b'5')?;
    Ok(Texts {
        text: Vec::new(alloc),
        payload: Vec::new(alloc),
        readers: [first, second],
        bytes: 0,
    })
}

/// What is told of many clients: the first that is not served by the rules; how many bytes they sent, in how many pieces; how many options were
/// answered, and requests without an error and with 1, 5, 22 and 28; and how many sessions were ended.
type Told = (Option<u64>, [u64; 2], u64, [u64; 5], u64);

fn told_of_heard<V: Managed>(
    alloc: Global,
    hub: &mut Hub<V>,
    plain: &mut PlainPool,
    seed: u64,
    texts: &mut Texts,
    heard: &mut Heard,
    clients: u64,
) -> Result<Told, AllocError> {
    let mut random = Random::from(seed);
    let first = first_unserved(alloc, hub, plain, &mut random, texts, heard, clients)?;
    let errors = [
        plain.errors[0],
        plain.errors[1],
        plain.errors[5],
        plain.errors[22],
        plain.errors[28],
    ];
    Ok((
        first,
        [texts.bytes, heard.pieces],
        plain.options,
        errors,
        plain.ends,
    ))
}

fn told_of_texts<V: Managed>(
    alloc: Global,
    hub: &mut Hub<V>,
    plain: &mut PlainPool,
    seed: u64,
    texts: &mut Texts,
    clients: u64,
) -> Result<Told, AllocError> {
    let mut heard = Heard::new(alloc);
    told_of_heard(alloc, hub, plain, seed, texts, &mut heard, clients)
}

fn told_of_clients<V: Managed>(
    alloc: Global,
    hub: &mut Hub<V>,
    plain: &mut PlainPool,
    seed: u64,
    clients: u64,
) -> Result<Told, AllocError> {
    let mut texts = no_texts(alloc)?;
    told_of_texts(alloc, hub, plain, seed, &mut texts, clients)
}

/// Whether a volume holds what it should.
fn holds(pool: &mut MemPool, id: DevId, wanted: &[u8], room: &mut [u8]) -> bool {
    read(pool, id, 0, room).is_ok() && *room == *wanted
}

/// Whether volume 0 of a pool does that is not used any more.
fn held(pool: MemPool, wanted: &[u8], room: &mut [u8]) -> bool {
    let mut pool = pool;
    holds(&mut pool, DevId::new(0), wanted, room)
}

/// Whether both volumes do.
fn hold_both(pool: &mut MemPool, plain: &PlainPool, room: &mut [u8]) -> bool {
    let first = plain.bytes.get(..VOLUME as usize).unwrap_or(b"");
    let second = plain.bytes.get(VOLUME as usize..).unwrap_or(b"");
    holds(pool, DevId::new(0), first, room) && holds(pool, DevId::new(5), second, room)
}

fn are_held(alloc: Global, pool: &mut MemPool, plain: &PlainPool) -> Result<bool, AllocError> {
    let mut room = Vec::from_elem(alloc, 0, VOLUME as usize)?;
    Ok(hold_both(pool, plain, &mut room))
}

/// The number that a check tells of the image of a pool that is closed.
fn told_of_closed(alloc: Global, pool: MemPool) -> u8 {
    let (_, disk) = close(pool);
    let mut disk = disk;
    told_by_check(alloc, &mut disk)
}

/// Whether both do behind all clients, and the number that a check tells of the image once the pool is closed.
fn told_behind(alloc: Global, pool: MemPool, plain: &PlainPool) -> Result<(bool, u8), Fail> {
    let mut pool = pool;
    let are_held = are_held(alloc, &mut pool, plain)?;
    Ok((are_held, told_of_closed(alloc, pool)))
}

/// What is told of so many clients of a pool, and behind them.
fn told_of_pool(
    alloc: Global,
    pool: MemPool,
    plain: &mut PlainPool,
    seed: u64,
    clients: u64,
) -> Result<(Told, (bool, u8)), Fail>
    requires { pool.holders ≡ [] }
{
    let mut hub = hub_of(pool);
    let told = told_of_clients(alloc, &mut hub, plain, seed, clients)?;
    Ok((told, told_behind(alloc, hub.into_pool(), plain)?))
}

/// The same of a new pool.
fn told_of_streams(alloc: Global, seed: u64, clients: u64) -> Result<(Told, (bool, u8)), Fail> {
    let mut plain = PlainPool::new(alloc)?;
    told_of_pool(alloc, two_volumes(alloc)?, &mut plain, seed, clients)
}

#[test]
fn random_clients(rt: HostRuntime) -> Result<(), Fail> {
    let told = told_of_streams(rt.alloc(), 1, 2000)?;
    let errors = [6537, 0, 0, 2775, 788];
    let wanted = (None, [200_929_968, 13_733], 18_077, errors, 1120);
    assert_eq!(rt; told, (wanted, (true, 0)));
    Ok(())
}

/// The disk of a pool whose first sector is written.
fn disk_written(alloc: Global) -> Result<MemDisk, Refusal> {
    let mut pool = two_volumes(alloc)?;
    write(&mut pool, DevId::new(0), 0, &[0x61; 512])?;
    closed(pool)
}

/// The pool of that, opened to read only.
fn read_only(alloc: Global) -> Result<MemPool, Refusal>
    ensures { IfOk result (λ pool. pool.holders ≡ []) }
{
    match Pool::<MemDisk, Meta>::open_read_only(alloc, disk_written(alloc)?) {
        Ok(pool) => Ok(pool),
        Err((refusal, _)) => Err(refusal),
    }
}

/// Serves a client that sends this.
fn serve_text(alloc: Global, plain: &mut PlainPool, text: &[u8]) -> Result<(), AllocError> {
    let mut out = Vec::new(alloc);
    serve(plain, text, &mut out)
}

/// Serves the first client.
fn serve_first(alloc: Global, plain: &mut PlainPool) -> Result<(), AllocError> {
    let text = first_text(alloc)?;
    serve_text(alloc, plain, &text)
}

/// The plain pool with the same.
fn plain_written(alloc: Global) -> Result<PlainPool, AllocError> {
    let mut plain = PlainPool::new(alloc)?;
    serve_first(alloc, &mut plain)?;
    plain.is_read_only = true;
    Ok(plain)
}

fn told_of_readers(alloc: Global, seed: u64, clients: u64) -> Result<(Told, (bool, u8)), Fail> {
    let mut plain = plain_written(alloc)?;
    told_of_pool(alloc, read_only(alloc)?, &mut plain, seed, clients)
}

#[test]
fn random_clients_of_a_pool_that_is_only_read(rt: HostRuntime) -> Result<(), Fail> {
    let told = told_of_readers(rt.alloc(), 2, 200)?;
    let errors = [491, 151, 0, 255, 36];
    let wanted = (None, [24_961_256, 1470], 1842, errors, 114);
    assert_eq!(rt; told, (wanted, (true, 0)));
    Ok(())
}

/// A client comes and sends all this at once.
fn send_all<V: Managed>(
    alloc: Global,
    hub: &mut Hub<V>,
    text: &[u8],
    heard: &mut Heard,
) -> Result<(), AllocError> {
    open(alloc, hub, heard)?;
    send(alloc, hub, text, heard)?;
    Ok(())
}

/// What it is sent.
fn sent_in<V: Managed>(
    alloc: Global,
    hub: &mut Hub<V>,
    text: &[u8],
) -> Result<Vec<u8>, AllocError> {
    let mut heard = Heard::new(alloc);
    send_all(alloc, hub, text, &mut heard)?;
    Vec::from_slice(alloc, &heard.sent)
}

fn told_at_once(alloc: Global, text: &[u8]) -> Result<Vec<u8>, Fail> {
    let mut hub = hub_of(two_volumes(alloc)?);
    Ok(sent_in(alloc, &mut hub, text)?)
}

/// The first sector of volume 0 is filled by the first client's WRITE, the last byte of which is this one's.
const WRITTEN: usize = 567;

/// How many bytes a client is sent that sends this and goes, where they are a beginning of all that the whole text is answered.
fn begun_so<V: Managed>(
    alloc: Global,
    hub: &mut Hub<V>,
    text: &[u8],
    all: &[u8],
    heard: &mut Heard,
) -> Result<Option<usize>, AllocError> {
    let mut cuts = Random::from(text.len() as u64);
    visit(alloc, hub, text, &mut cuts, heard)?;
    let is_begun = all.starts_with(heard.sent.as_slice());
    Ok(if is_begun {
        Some(heard.sent.len())
    } else {
        None
    })
}

fn begun<V: Managed>(
    alloc: Global,
    hub: &mut Hub<V>,
    text: &[u8],
    all: &[u8],
) -> Result<Option<usize>, AllocError> {
    let mut heard = Heard::new(alloc);
    begun_so(alloc, hub, text, all, &mut heard)
}

/// The same where volume 0 holds what it should then.
fn beginning(
    alloc: Global,
    text: &[u8],
    all: &[u8],
    wanted: &[u8],
    room: &mut [u8],
) -> Result<Option<usize>, Fail> {
    let mut hub = hub_of(two_volumes(alloc)?);
    let begun = begun(alloc, &mut hub, text, all)?;
    Ok(if held(hub.into_pool(), wanted, room) {
        begun
    } else {
        None
    })
}

/// How many bytes are sent of all beginnings of a text, together; or the first beginning, by its length, of which that is not so. In the bytes that
/// volume 0 should hold nothing is written yet.
fn sent_of_beginnings(
    alloc: Global,
    text: &[u8],
    all: &[u8],
    wanted: &mut [u8],
    room: &mut [u8],
) -> Result<Result<usize, usize>, Fail> {
    let mut sent = 0usize;
    for end in 0..text.len() + 1 {
        if end == WRITTEN {
            copy_in(wanted, 0, &[0x61; 512]);
        }
        let Some(more) = beginning(alloc, &text[..end], all, wanted, room)? else {
            return Ok(Err(end));
        };
        sent = sent.wrapping_add(more);
    }
    Ok(Ok(sent))
}

fn told_with_room(
    alloc: Global,
    text: &[u8],
    all: &[u8],
    room: &mut [u8],
) -> Result<Result<usize, usize>, Fail> {
    let mut wanted = Vec::from_elem(alloc, 0, VOLUME as usize)?;
    sent_of_beginnings(alloc, text, all, &mut wanted, room)
}

fn told_of_all(alloc: Global, text: &[u8], all: &[u8]) -> Result<Result<usize, usize>, Fail> {
    let mut room = Vec::from_elem(alloc, 0, VOLUME as usize)?;
    told_with_room(alloc, text, all, &mut room)
}

fn told_of_beginnings(alloc: Global, text: &[u8]) -> Result<Result<usize, usize>, Fail> {
    let all = told_at_once(alloc, text)?;
    told_of_all(alloc, text, &all)
}

fn first_text(alloc: Global) -> Result<Vec<u8>, AllocError> {
    let mut text = Vec::new(alloc);
    add_first(&mut text)?;
    Ok(text)
}

/// How long the first text is, and what is told of its beginnings.
fn told_of_first(alloc: Global) -> Result<(usize, Result<usize, usize>), Fail> {
    let text = first_text(alloc)?;
    let sent = told_of_beginnings(alloc, &text)?;
    Ok((text.len(), sent))
}

#[test]
fn every_beginning_of_the_first_session(rt: HostRuntime) -> Result<(), Fail> {
    let told = told_of_first(rt.alloc())?;
    assert_eq!(rt; told, (651, Ok(97_406)));
    Ok(())
}
