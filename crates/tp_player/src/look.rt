//! What a pool shows: its status line, its volumes, and those of its metadata snapshot.

use crate::idle::{IdlePool, MemServed};
use crate::stage::{Stage, serve, stop};
use nbd_session::Profile;
use std::alloc::{AllocError, Global};
use tp_hub::{Answers, Event, Hub};
use tp_model::Refusal;
use tp_reference::{Found, FoundVolume};
use tp_script::{Buffer, add_fill, add_head, add_info_option, add_values};

/// Sectors of one read, and of one READ of a client.
const PIECE: u64 = 2048;

const CLIENT_PIECE: u64 = 1024;

/// The connection that reads volumes that are larger than the pool's own.
const READER: u8 = 63;

/// Bytes before the data of its READ: the greeting (18), the replies to GO (86), and the head of
/// the reply (16).
const BEFORE_DATA: usize = 120;

fn read_piece(
    idle: &mut IdlePool,
    id: u32,
    sector: u64,
    in_snapshot: bool,
    out: &mut [u8],
) -> Result<(), Refusal> {
    if in_snapshot {
        idle.read_snapshot(id, sector, out)
    } else {
        idle.read(id, sector, out)
    }
}

/// Adds the values of the first sectors of a volume. Returns whether each has one.
#[inline(never)]
fn add_sectors(
    idle: &mut IdlePool,
    sectors: u64,
    in_snapshot: bool,
    volume: &mut FoundVolume,
) -> Result<bool, Refusal> {
    let mut bytes = Buffer::new(volume.values.alloc());
    let mut have_values = true;
    for piece in 0..sectors / PIECE + 1 {
        let first = piece.saturating_mul(PIECE);
        bytes.clear();
        add_fill(&mut bytes, 0, sectors.saturating_sub(first).min(PIECE), 0);
        read_piece(idle, volume.id, first, in_snapshot, bytes.as_mut_slice())?;
        have_values &= add_values(&mut volume.values, first, bytes.as_slice());
    }
    Ok(have_values && bytes.is_whole())
}

/// Returns the bytes of a client that opens a volume and reads it: its flags, GO and a READ.
fn read_text(alloc: Global, id: u32, sector: u64, count: u64) -> Buffer {
    let mut name = Buffer::new(alloc);
    name.add_number(id as u64);
    let mut text = Buffer::new(alloc);
    text.add(&[0, 0, 0, 3]);
    add_info_option(&mut text, 7, name.as_slice());
    let len = (count.saturating_mul(512) % 2_097_152) as u32;
    add_head(&mut text, (0, 0), 1, sector.saturating_mul(512), len);
    text
}

/// Adds the values that a client reads. Returns whether each sector has one.
#[inline(never)]
fn add_by_client(
    server: &mut Hub<MemServed>,
    sector: u64,
    count: u64,
    out: &mut Answers,
    volume: &mut FoundVolume,
) -> bool {
    let alloc = volume.values.alloc();
    let text = read_text(alloc, volume.id, sector, count);
    out.clear();
    server.run(
        alloc,
        &[
            Event::Open(READER, Profile::Strict),
            Event::Bytes(READER, text.as_slice()),
            Event::Hangup(READER),
        ],
        out,
    );
    let bytes = out.bytes().get(BEFORE_DATA..).unwrap_or(&[]);
    let is_whole = bytes.len() as u64 == count.saturating_mul(512);
    let have_values = add_values(&mut volume.values, sector, bytes);
    out.clear();
    is_whole && have_values
}

/// Adds the values of a volume that clients read. Returns whether each sector has one.
fn add_all_by_client(
    server: &mut Hub<MemServed>,
    sectors: u64,
    out: &mut Answers,
    volume: &mut FoundVolume,
) -> bool {
    let mut have_values = true;
    for piece in 0..sectors / CLIENT_PIECE + 1 {
        let first = piece.saturating_mul(CLIENT_PIECE);
        let count = sectors.saturating_sub(first).min(CLIENT_PIECE);
        have_values &= add_by_client(server, first, count, out, volume);
    }
    have_values
}

/// Adds the values of the volumes that are larger than the pool's own, which only a client can
/// read. Returns whether each sector has one.
fn add_unread(server: &mut Hub<MemServed>, out: &mut Answers, volumes: &mut [FoundVolume]) -> bool {
    let mut have_values = true;
    for volume in volumes.iter_mut() {
        let sectors = volume.unread;
        if sectors > 0 {
            have_values &= add_all_by_client(server, sectors, out, volume);
        }
    }
    have_values
}

/// Adds what only clients can read, by a server over the pool for this time.
fn look_by_clients(
    alloc: Global,
    idle: Box<IdlePool>,
    out: &mut Answers,
    found: &mut Found,
) -> Stage {
    let Stage::Server(mut server) = serve(alloc, idle) else {
        return Stage::Empty;
    };
    let have_values = add_unread(&mut server, out, found.volumes.as_mut_slice());
    found.is_strange = found.is_strange || !have_values;
    stop(alloc, server)
}

/// Adds the values of a volume, unless only a client can read it. Returns whether each sector has
/// one.
fn add_volume_values(idle: &mut IdlePool, volume: &mut FoundVolume) -> bool {
    let blocks = idle.volume_blocks(volume.id).unwrap_or(0);
    let sectors = (blocks as u64).saturating_mul(idle.block_sectors());
    if sectors > idle.volume_sectors() {
        volume.unread = sectors;
        return true;
    }
    add_sectors(idle, sectors, false, volume) == Ok(true)
}

/// Adds a volume.
fn add_volume(idle: &mut IdlePool, id: u32, found: &mut Found) -> Result<(), AllocError> {
    let mut volume = FoundVolume::new(found.line.alloc(), id);
    let has_line = idle.add_thin(id, &mut volume.line).is_ok();
    let have_values = add_volume_values(idle, &mut volume);
    found.is_strange = found.is_strange || !has_line || !have_values;
    found.volumes.push(volume)?;
    Ok(())
}

/// Adds a volume of the metadata snapshot, if it is there.
fn add_copy(idle: &mut IdlePool, id: u32, found: &mut Found) -> Result<(), AllocError> {
    let mut volume = FoundVolume::new(found.line.alloc(), id);
    let sectors = idle.volume_sectors();
    match add_sectors(idle, sectors, true, &mut volume) {
        Ok(true) => found.snapshot.push(volume)?,
        Err(Refusal::NoHeldRoot | Refusal::NoSuchDevice) => {}
        _ => found.is_strange = true,
    }
    Ok(())
}

/// Returns the least number of a volume from this one on, and notes a failure.
fn next_volume(idle: &mut IdlePool, from: u32, found: &mut Found) -> Option<u32> {
    match idle.next_id(from) {
        Ok(id) => id,
        Err(_) => {
            found.is_strange = true;
            None
        }
    }
}

/// Adds all volumes.
fn add_volumes(idle: &mut IdlePool, found: &mut Found) -> Result<(), AllocError> {
    let mut from = 0;
    for _ in 0..65_536 {
        let Some(id) = next_volume(idle, from, found) else {
            break;
        };
        add_volume(idle, id, found)?;
        from = id.saturating_add(1);
    }
    Ok(())
}

/// Adds all that calls of the pool show, and of the metadata snapshot the volumes with these
/// numbers.
fn look_by_calls(idle: &mut IdlePool, ids: &[u32], found: &mut Found) -> Result<(), AllocError> {
    idle.add_status(&mut found.line);
    add_volumes(idle, found)?;
    for id in ids {
        add_copy(idle, *id, found)?;
    }
    Ok(())
}

/// Adds all that a pool shows, and of the metadata snapshot the volumes with these numbers. Returns
/// the pool.
#[inline(never)]
pub(crate) fn look(
    alloc: Global,
    idle: Box<IdlePool>,
    ids: &[u32],
    out: &mut Answers,
    found: &mut Found,
) -> Result<Stage, AllocError> {
    let mut idle = idle;
    look_by_calls(&mut idle, ids, found)?;
    if found.volumes.iter().any(|volume| volume.unread > 0) {
        Ok(look_by_clients(alloc, idle, out, found))
    } else {
        Ok(Stage::Pool(idle))
    }
}
