//! The data blocks of a pool.
//!
//! Block p is the sectors from `8 * metadata blocks + p * sectors of a block` on. Places within a block are in
//! sectors, and buffers hold whole sectors of 512 bytes.
#![tactic(auto)]

ghost use Rattle.std.specs.Prelude.{◌≡◌, ◌+◌, ◌*◌, ◌/◌, ◌%◌, ◌<◌, ◌≤◌, is_ok, is_err, length, IfOk, IsTrue, OnOk, OnErr, ◌++◌, take, drop};
ghost use Rattle.std.specs.List.{concat};
ghost use Rattle.tp_model.specs.Geometry.{Geometry, data_sector, sectors_of_image};
ghost use Rattle.tp_model.specs.Sectors.{bytes_at, sectors_of};
ghost use Rattle.tp_model.specs.Disk.{IsSameDisk, Writes, after_read, after_write, seen};
ghost use Rattle.tp_model.specs.DiskStops.{LeavesOutside};
ghost use Rattle.tp_blocks.specs.Filled.{Fills, IsKnown, IsPlaceOf, MayFill, base_of};

use std::alloc::{AllocError, Global};
use std::marker::Model;
use tp_disk::{Disk, Fault};
use tp_model::{Geometry, Pb};

const SECTOR: usize = 512;

/// The data blocks of one pool, with room for one block, so that no call but `new` takes memory.
#[derive(Drop)]
pub struct Blocks {
    geometry: Geometry,
    block: Vec<u8>,
}

impl Model for Blocks {
    ghost use Rattle.std.specs.Prelude.{◌≡◌, ◌*◌, length};
    ghost use Rattle.tp_model.specs.Geometry as sizes;

    ghost Value = { sizes.Geometry };

    ghost view = { λ b. b.geometry };

    ghost invariant = { λ b. length b.block.items ≡ 512 * b.geometry.block_sectors };
}

impl Blocks {
    /// The data blocks of a pool of this geometry, or `AllocError` where there is no memory for one block.
    pub fn new(alloc: Global, geometry: Geometry) -> Result<Blocks, AllocError>
        ensures { IfOk result (λ blocks. blocks ≡ geometry) }
    {
        let block = Vec::from_elem(alloc, 0, SECTOR * geometry.block_sectors() as usize)?;
        Ok(Blocks { geometry, block })
    }

    /// Reads from a sector of a block on until `out` is full, in one call of the disk. What is asked for may go on into
    /// the blocks behind it. After an `Err`, `out` may hold anything.
    pub fn read<D: Disk>(
        &self,
        disk: &mut D,
        block: Pb,
        sector: u64,
        out: &mut [u8],
    ) -> Result<(), Fault>
        requires disk { sectors_of_image self.now ≤ (D.state disk.old).size }
        requires block { block < self.now.data_blocks }
        requires whole { length out.old % 512 ≡ 0 }
        requires inside { block * self.now.block_sectors + sector + length out.old / 512 ≤ self.now.data_blocks * self.now.block_sectors }
        ensures state { D.state disk.new ≡ after_read (is_ok result) (D.state disk.old) }
        ensures bytes { OnOk result (IsTrue (D.state disk.old).is_honest
            → out.new ≡ bytes_at (seen (D.state disk.old).cells) (data_sector self.now block + sector) (length out.old / 512)) }
    {
        disk.read(self.geometry.data_sector(block) + sector, out)
    }

    /// Writes from a sector of a block on, in place and in one call of the disk. The bytes may go on into the blocks behind
    /// it. After an `Err` each of their sectors, by itself, is as before or written, and no other sector changed.
    pub fn write_part<D: Disk>(
        &self,
        disk: &mut D,
        block: Pb,
        sector: u64,
        bytes: &[u8],
    ) -> Result<(), Fault>
        requires disk { sectors_of_image self.now ≤ (D.state disk.old).size }
        requires block { block < self.now.data_blocks }
        requires whole { length bytes.now % 512 ≡ 0 }
        requires inside { block * self.now.block_sectors + sector + length bytes.now / 512 ≤ self.now.data_blocks * self.now.block_sectors }
        ensures any { Writes (data_sector self.now block + sector) (sectors_of bytes.now) (D.state disk.old) (D.state disk.new) }
        ensures ok { OnOk result (D.state disk.new ≡ after_write (data_sector self.now block + sector) (sectors_of bytes.now) (D.state disk.old)) }
        ensures err { OnErr result ((D.state disk.new).failures ≡ (D.state disk.old).failures + 1) }
        ensures any_moment { LeavesOutside (data_sector self.now block + sector) (length bytes.now / 512) (D.state disk.old) (D.state disk.new) }
    {
        disk.write(self.geometry.data_sector(block) + sector, bytes)
    }

    /// Writes the whole block: these bytes at a sector of it, and in the rest what block `from` holds, or zeros where
    /// it is none. After an `Err` each sector of the block, by itself, is as before or written, and no other sector changed.
    pub fn fill<D: Disk>(
        &mut self,
        disk: &mut D,
        block: Pb,
        sector: u64,
        bytes: &[u8],
        from: Option<Pb>,
    ) -> Result<(), Fault>
        requires disk { sectors_of_image self.old ≤ (D.state disk.old).size }
        requires block { block < self.old.data_blocks }
        requires from { IsPlaceOf self.old from }
        requires whole { length bytes.now % 512 ≡ 0 }
        requires inside { sector + length bytes.now / 512 ≤ self.old.block_sectors }
        ensures filled { OnOk result (Fills self.old block sector bytes.now from (D.state disk.old) (D.state disk.new)) }
        ensures any { MayFill self.old block sector bytes.now from (D.state disk.old) (D.state disk.new) }
        ensures err { OnErr result ((D.state disk.new).failures ≡ (D.state disk.old).failures + 1) }
        ensures any_moment { LeavesOutside (data_sector self.old block) self.old.block_sectors (D.state disk.old) (D.state disk.new) }
        ensures same_disk { IsSameDisk (D.state disk.old) (D.state disk.new) }
        ensures flushes { (D.state disk.new).flushes ≡ (D.state disk.old).flushes }
        ensures geometry { self.new ≡ self.old }
    {
        let at = self.geometry.data_sector(block);
        if bytes.len() == SECTOR * self.geometry.block_sectors() as usize {
            return disk.write(at, bytes);
        }
        let geometry = self.geometry;
        let whole = self.block.as_mut_slice();
        compose(&geometry, disk, &from, sector, bytes, whole)?;
        disk.write(at, whole)
    }
}

// These bytes at a sector of a block, and round them those of a block to copy, or zeros.
fn compose<D: Disk>(
    geometry: &Geometry,
    disk: &mut D,
    from: &Option<Pb>,
    sector: u64,
    bytes: &[u8],
    out: &mut [u8],
) -> Result<(), Fault>
    requires disk { sectors_of_image geometry.now ≤ (D.state disk.old).size }
    requires from { IsPlaceOf geometry.now from.now }
    requires out { length out.old ≡ 512 * geometry.now.block_sectors }
    requires whole { length bytes.now % 512 ≡ 0 }
    requires inside { sector + length bytes.now / 512 ≤ geometry.now.block_sectors }
    ensures state { D.state disk.new ≡ after_read (is_ok result) (D.state disk.old) }
    ensures bytes { OnOk result (IsKnown from.now (D.state disk.old).is_honest
        → out.new ≡ take (512 * sector) (concat (base_of geometry.now (seen (D.state disk.old).cells) from.now)) ++ bytes.now ++ drop (512 * sector + length bytes.now) (concat (base_of geometry.now (seen (D.state disk.old).cells) from.now))) }
    ensures length { length out.new ≡ length out.old }
{
    let (head, rest) = out.split_at_mut(SECTOR * sector as usize);
    let (middle, tail) = rest.split_at_mut(bytes.len());
    load(geometry, disk, from, 0, head)?;
    load(
        geometry,
        disk,
        from,
        sector + (bytes.len() / SECTOR) as u64,
        tail,
    )?;
    middle.copy_from_slice(bytes);
    Ok(())
}

// The bytes of a block to copy from a sector of it on, or zeros.
fn load<D: Disk>(
    geometry: &Geometry,
    disk: &mut D,
    from: &Option<Pb>,
    sector: u64,
    out: &mut [u8],
) -> Result<(), Fault>
    requires disk { sectors_of_image geometry.now ≤ (D.state disk.old).size }
    requires from { IsPlaceOf geometry.now from.now }
    requires whole { length out.old % 512 ≡ 0 }
    requires inside { sector + length out.old / 512 ≤ geometry.now.block_sectors }
    ensures state { D.state disk.new ≡ after_read (is_ok result) (D.state disk.old) }
    ensures bytes { OnOk result (IsKnown from.now (D.state disk.old).is_honest
        → out.new ≡ take (length out.old) (drop (512 * sector) (concat (base_of geometry.now (seen (D.state disk.old).cells) from.now)))) }
    ensures length { length out.new ≡ length out.old }
{
    if out.is_empty() {
        return Ok(());
    }
    match from {
        Some(source) => disk.read(geometry.data_sector(*source) + sector, out),
        None => {
            out.fill(0);
            Ok(())
        }
    }
}
