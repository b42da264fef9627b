//! The part of the product that a case has at a time, and how one becomes the next.

ghost use Rattle.std.specs.Prelude.{◌≡◌};
ghost use Rattle.std.specs.FinMap.{empty};
ghost use Rattle.tp_holders.specs.Holders.{holds_of};

use crate::disk::ScriptDisk;
use crate::idle::{IdlePool, MemServed};
use std::alloc::Global;
use tp_hub::Hub;
use tp_model::{Geometry, Refusal};
use tp_served::Room;

/// The part of the product that a case has at a time.
#[derive(Drop)]
pub(crate) enum Stage {
    Empty,
    Disk(Box<ScriptDisk>),
    Pool(Box<IdlePool>),
    Server(Box<Hub<MemServed>>),
}

/// How a lifetime of a pool begins.
#[derive(Clone, Copy)]
pub(crate) enum Opening {
    Format(Geometry),
    /// The metadata ends before this sector.
    Open(u64),
    ReadOnly(u64),
}

impl Opening {
    /// Returns the first sector after the metadata.
    pub(crate) fn border(&self) -> u64 {
        match *self {
            Opening::Format(geometry) => (geometry.metadata_blocks() as u64).saturating_mul(8),
            Opening::Open(border) | Opening::ReadOnly(border) => border,
        }
    }
}

fn disk_stage(alloc: Global, disk: ScriptDisk) -> Stage {
    match Box::new(alloc, disk) {
        Ok(disk) => Stage::Disk(disk),
        Err(_) => Stage::Empty,
    }
}

fn idle_stage(alloc: Global, pool: MemServed) -> (Stage, Result<(), Refusal>)
    requires { holds_of pool.besides.holders ≡ empty }
{
    match Box::new(alloc, IdlePool { pool }) {
        Ok(idle) => (Stage::Pool(idle), Ok(())),
        Err(_) => (Stage::Empty, Err(Refusal::Memory)),
    }
}

#[inline(never)]
fn format(
    alloc: Global,
    disk: ScriptDisk,
    geometry: Geometry,
    room: Room,
) -> (Stage, Result<(), Refusal>) {
    match MemServed::format(alloc, disk, geometry, room) {
        Ok(pool) => idle_stage(alloc, pool),
        Err((refusal, disk)) => (disk_stage(alloc, disk), Err(refusal)),
    }
}

#[inline(never)]
fn open(alloc: Global, disk: ScriptDisk, room: Room) -> (Stage, Result<(), Refusal>) {
    match MemServed::open(alloc, disk, room) {
        Ok(pool) => idle_stage(alloc, pool),
        Err((refusal, disk)) => (disk_stage(alloc, disk), Err(refusal)),
    }
}

#[inline(never)]
fn open_read_only(alloc: Global, disk: ScriptDisk, room: Room) -> (Stage, Result<(), Refusal>) {
    match MemServed::open_read_only(alloc, disk, room) {
        Ok(pool) => idle_stage(alloc, pool),
        Err((refusal, disk)) => (disk_stage(alloc, disk), Err(refusal)),
    }
}

/// Begins a lifetime of a pool on a disk.
pub(crate) fn begin(
    alloc: Global,
    disk: Box<ScriptDisk>,
    opening: &Opening,
    room: Room,
) -> (Stage, Result<(), Refusal>) {
    let disk = Box::into_inner(disk);
    match *opening {
        Opening::Format(geometry) => format(alloc, disk, geometry, room),
        Opening::Open(_) => open(alloc, disk, room),
        Opening::ReadOnly(_) => open_read_only(alloc, disk, room),
    }
}

#[inline(never)]
pub(crate) fn clear_needs_check(alloc: Global, disk: &mut ScriptDisk) -> Result<(), Refusal> {
    MemServed::clear_needs_check(alloc, disk)
}

/// Closes a pool.
#[inline(never)]
pub(crate) fn close(alloc: Global, idle: Box<IdlePool>) -> (Stage, Result<(), Refusal>) {
    let IdlePool { pool } = Box::into_inner(idle);
    let (answer, disk) = pool.close();
    (disk_stage(alloc, disk), answer)
}

/// Puts a server over a pool.
#[inline(never)]
pub(crate) fn serve(alloc: Global, idle: Box<IdlePool>) -> Stage {
    let IdlePool { pool } = Box::into_inner(idle);
    match Box::new(alloc, Hub::new(pool)) {
        Ok(server) => Stage::Server(server),
        Err(_) => Stage::Empty,
    }
}

/// Takes the pool of a server, after all connections are closed.
#[inline(never)]
pub(crate) fn stop(alloc: Global, server: Box<Hub<MemServed>>) -> Stage {
    let (stage, _) = idle_stage(alloc, Box::into_inner(server).into_pool());
    stage
}
