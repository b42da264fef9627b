//! Ranges of sectors of a volume are looked up by runs of blocks, and read in one call where their data blocks follow one another.
ghost use Rattle.std.specs.Prelude.{◌≡◌, ◌+◌, ◌*◌, ◌/◌, ◌%◌, ◌^◌, ◌<◌, ◌≤◌, ℕ, length, not, true, IfErr, IfSome, IsTrue, MatchResult, None, OnOk, Ok, is_some, slice_index_or};
ghost use Rattle.std.specs.List.{concat};
ghost use Rattle.tp_model.specs.Geometry.{IsWithinLimits, sectors_of_image};
ghost use Rattle.tp_model.specs.Sectors.{sectors_of};
ghost use Rattle.tp_model.specs.Pool.{copy_id};
ghost use Rattle.tp_model.specs.Calls.{Gave, HeldRead, Refused};
ghost use Rattle.tp_model.specs.Clauses.{EndsInVolume, Flushes, IsAnswered};
ghost use Rattle.tp_model.specs.Refusals as refusals;
ghost use Rattle.tp_counts.specs.StoreErrors.{is_fault};
ghost use Rattle.tp_model.specs.Disk.{after_read, seen};
ghost use Rattle.tp_sharing.specs.Volumes.{Volumes, device_of};
ghost use Rattle.tp_stored.specs.Contents.{Contents};
ghost use Rattle.tp_meta.specs.Metadata.{AreInside, LooksUp};
ghost use Rattle.tp_shown.specs.Shown.{values_at};
ghost use Rattle.tp_pool.specs.AtMetadata.{PoolCalled, PoolRefused, served, view};
ghost use Rattle.tp_pool.specs.Held.{Fits};
ghost use Rattle.tp_pool.specs.Writing.{old_place};
ghost use Rattle.tp_pool.specs.Reading.{ArePlaced, IsRun, copied_home, id_read};

use crate::pool::{Pool, is_failed};
use crate::room::holds_root;
use crate::sectors::{MOST_BLOCKS, SECTOR, first_of, index_of, part_of, touched};
use crate::together::{Purpose, together};
use tp_blocks::Blocks;
use tp_counts::StoreError;
use tp_disk::{Disk, Fault};
use tp_meta::{Home, Metadata};
use tp_model::{DevId, Geometry, Pb, Refusal, Vb};

/// As many sectors as are looked up at once.
const MOST_SECTORS: u64 = 2048;

/// Reads sectors whose first block stands there, and those of the blocks behind it that follow it on the disk: zeros where it has no data
/// block.
fn read_part<D: Disk>(
    disk: &mut D,
    blocks: &Blocks,
    geometry: &Geometry,
    home: Option<Home>,
    sector: u64,
    out: &mut [u8],
) -> Result<(), StoreError>
    requires blocks { blocks.now ≡ geometry.now }
    requires disk { sectors_of_image geometry.now ≤ (D.state disk.old).size }
    requires whole { length out.old % 512 ≡ 0 }
    requires inside { IfSome home (λ home. home.place * geometry.now.block_sectors + sector % geometry.now.block_sectors + length out.old / 512 ≤ geometry.now.data_blocks * geometry.now.block_sectors) }
    requires place { IfSome home (λ home. home.place < geometry.now.data_blocks) }
    ensures length { length out.new ≡ length out.old }
    ensures state { D.state disk.new ≡ after_read (not (is_fault result)) (D.state disk.old) }
    ensures bytes { OnOk result (IsTrue (D.state disk.old).is_honest → (id : ℕ) (volumes : Volumes) → IsRun geometry.now id sector (length out.old / 512) volumes (old_place home)
        → out.new ≡ concat (values_at geometry.now volumes (seen (D.state disk.old).cells) id sector (length out.old / 512))) }
    ensures only { IfErr result (λ error. error ≡ StoreError.Fault) }
{
    let offset = sector % geometry.block_sectors() as u64;
    let Some(home) = home else {
        out.fill(0);
        return Ok(());
    };
    match blocks.read(disk, home.place, offset, out) {
        Ok(()) => Ok(()),
        Err(Fault) => Err(StoreError::Fault),
    }
}

/// What is told of a block of a held copy.
fn copied_home(place: Option<Pb>) -> Option<Home>
    ensures { result ≡ copied_home place }
{
    let Some(place) = place else {
        return None;
    };
    Some(Home {
        place,
        is_shared: true,
        is_hot: false,
    })
}

/// What is told of each block of a held copy.
fn copied_homes(places: &[Option<Pb>], homes: &mut [Option<Home>])
    requires { length homes.old ≡ length places.now }
    ensures length { length homes.new ≡ length homes.old }
    ensures value { (i : ℕ) → i < length homes.old → slice_index_or homes.new i None ≡ copied_home (slice_index_or places.now i None) }
{
    for i in 0..homes.len() {
        homes[i] = copied_home(places[i]);
    }
}

/// Looks up the blocks of the held copy of a volume from `first` on, one for each place. It tells whether there is such a copy.
fn look_up_copy<D: Disk, M: Metadata>(
    disk: &mut D,
    metadata: &M,
    id: DevId,
    first: Vb,
    homes: &mut [Option<Home>],
) -> Result<bool, StoreError>
    requires disk { sectors_of_image (M.geometry metadata.now) ≤ (D.state disk.old).size }
    requires few { length homes.old ≤ 17 }
    requires run { first + length homes.old ≤ 2 ^ 24 }
    ensures length { length homes.new ≡ length homes.old }
    ensures looked { LooksUp (M.tells metadata.now) (D.state disk.old) (D.state disk.new) result (λ is_there now. (is_there ≡ is_some (device_of (copy_id id) now.volumes))
        × ArePlaced (copy_id id) first now.volumes (length homes.old) homes.new) }
    ensures inside { OnOk result (AreInside (M.geometry metadata.now).data_blocks (length homes.old) homes.new) }
{
    let mut found = [None; MOST_BLOCKS];
    let places = &mut found[..homes.len()];
    let is_there = metadata.held_run(disk, id, first, places)?;
    copied_homes(places, homes);
    Ok(is_there)
}

/// Looks up the blocks of a volume from `first` on, or of its held copy, one for each place. It tells whether there is such a volume.
fn look_up_places<D: Disk, M: Metadata>(
    disk: &mut D,
    metadata: &M,
    is_copy: bool,
    id: DevId,
    first: Vb,
    homes: &mut [Option<Home>],
) -> Result<bool, StoreError>
    requires disk { sectors_of_image (M.geometry metadata.now) ≤ (D.state disk.old).size }
    requires few { length homes.old ≤ 17 }
    requires run { first + length homes.old ≤ 2 ^ 24 }
    ensures length { length homes.new ≡ length homes.old }
    ensures looked { LooksUp (M.tells metadata.now) (D.state disk.old) (D.state disk.new) result (λ is_there now. (is_there ≡ is_some (device_of (id_read is_copy id) now.volumes))
        × ArePlaced (id_read is_copy id) first now.volumes (length homes.old) homes.new) }
    ensures inside { OnOk result (AreInside (M.geometry metadata.now).data_blocks (length homes.old) homes.new) }
{
    if is_copy {
        return look_up_copy(disk, metadata, id, first, homes);
    }
    metadata.look_up_run(disk, id, first, homes)
}

/// Reads at most 2048 sectors of a volume from this one on, or of its held copy, until `out` is full: one look-up tells where all of their blocks
/// stand, and whether there is such a volume. Where there is none, `out` may hold anything.
fn read_piece<D: Disk, M: Metadata>(
    disk: &mut D,
    metadata: &M,
    blocks: &Blocks,
    is_copy: bool,
    id: DevId,
    sector: u64,
    out: &mut [u8],
) -> Result<bool, StoreError>
    requires blocks { blocks.now ≡ M.geometry metadata.now }
    requires disk { sectors_of_image (M.geometry metadata.now) ≤ (D.state disk.old).size }
    requires whole { length out.old % 512 ≡ 0 }
    requires most { length out.old / 512 ≤ 2048 }
    requires within { Fits (M.geometry metadata.now) (sector + length out.old / 512) }
    ensures length { length out.new ≡ length out.old }
    ensures looked { LooksUp (M.tells metadata.now) (D.state disk.old) (D.state disk.new) result (λ is_there now. is_there ≡ is_some (device_of (id_read is_copy id) now.volumes)) }
    ensures bytes { result ≡ Ok true → (now kept : Contents) → M.tells metadata.now (D.state disk.old) now kept
        → out.new ≡ concat (values_at (M.geometry metadata.now) now.volumes (seen (D.state disk.old).cells) (id_read is_copy id) sector (length out.old / 512)) }
    ensures limits { IsWithinLimits (M.geometry metadata.now) }
{
    let geometry = metadata.geometry();
    let count = out.len() as u64 / SECTOR;
    let first = first_of(&geometry, sector, count);
    let mut places = [None; MOST_BLOCKS];
    let homes = &mut places[..touched(&geometry, sector, count)];
    if !look_up_places(disk, metadata, is_copy, id, first, homes)? {
        return Ok(false);
    }
    let mut done = 0;
    while done < count {
        let index = index_of(&geometry, sector, sector + done);
        let part = part_of(
            &geometry,
            sector + done,
            count - done,
            together(Purpose::Reading, homes, index),
        );
        let from = (SECTOR * done) as usize;
        let to = (SECTOR * (done + part)) as usize;
        read_part(
            disk,
            blocks,
            &geometry,
            homes[index],
            sector + done,
            &mut out[from..to],
        )?;
        done += part;
    }
    Ok(true)
}

/// Reads sectors of a volume from this one on, or of its held copy, until `out` is full, as look-ups tell on this disk. It tells whether there is such a
/// volume; where there is none, `out` may hold anything.
pub(crate) fn read_told<D: Disk, M: Metadata>(
    disk: &mut D,
    metadata: &M,
    blocks: &Blocks,
    is_copy: bool,
    id: DevId,
    sector: u64,
    out: &mut [u8],
) -> Result<bool, StoreError>
    requires blocks { blocks.now ≡ M.geometry metadata.now }
    requires disk { sectors_of_image (M.geometry metadata.now) ≤ (D.state disk.old).size }
    requires whole { length out.old % 512 ≡ 0 }
    requires within { Fits (M.geometry metadata.now) (sector + length out.old / 512) }
    ensures length { length out.new ≡ length out.old }
    ensures looked { LooksUp (M.tells metadata.now) (D.state disk.old) (D.state disk.new) result (λ is_there now. is_there ≡ is_some (device_of (id_read is_copy id) now.volumes)) }
    ensures bytes { result ≡ Ok true → (now kept : Contents) → M.tells metadata.now (D.state disk.old) now kept
        → out.new ≡ concat (values_at (M.geometry metadata.now) now.volumes (seen (D.state disk.old).cells) (id_read is_copy id) sector (length out.old / 512)) }
{
    let count = out.len() as u64 / SECTOR;
    let mut done = count.min(MOST_SECTORS);
    let mut is_there = read_piece(
        disk,
        metadata,
        blocks,
        is_copy,
        id,
        sector,
        &mut out[..(SECTOR * done) as usize],
    )?;
    while is_there && done < count {
        let part = (count - done).min(MOST_SECTORS);
        let from = (SECTOR * done) as usize;
        let to = (SECTOR * (done + part)) as usize;
        is_there = read_piece(
            disk,
            metadata,
            blocks,
            is_copy,
            id,
            sector + done,
            &mut out[from..to],
        )?;
        done += part;
    }
    Ok(is_there)
}

/// Reads sectors of a volume from this one on, or of its held copy, until `out` is full. It tells whether there is such a volume; where there is
/// none, `out` may hold anything.
pub(crate) fn read_range<D: Disk, M: Metadata>(
    disk: &mut D,
    metadata: &M,
    blocks: &Blocks,
    is_copy: bool,
    id: DevId,
    sector: u64,
    out: &mut [u8],
) -> Result<bool, StoreError>
    requires blocks { blocks.now ≡ M.geometry metadata.now }
    requires disk { sectors_of_image (M.geometry metadata.now) ≤ (D.state disk.old).size }
    requires whole { length out.old % 512 ≡ 0 }
    requires within { Fits (M.geometry metadata.now) (sector + length out.old / 512) }
    ensures length { length out.new ≡ length out.old }
    ensures looked { LooksUp (M.stands metadata.now) (D.state disk.old) (D.state disk.new) result (λ is_there now. is_there ≡ is_some (device_of (id_read is_copy id) now.volumes)) }
    ensures bytes { result ≡ Ok true → (now kept : Contents) → M.stands metadata.now (D.state disk.old) now kept
        → out.new ≡ concat (values_at (M.geometry metadata.now) now.volumes (seen (D.state disk.old).cells) (id_read is_copy id) sector (length out.old / 512)) }
{
    read_told(disk, metadata, blocks, is_copy, id, sector, out)
}

impl<D: Disk, M: Metadata> Pool<D, M> {
    /// Reads sectors that a volume had when the mapping that is held was reserved, whatever has become of the volume since. The range lies in the volume
    /// as it was; where nobody knows its size, one that lies in the pool's own size will do. It writes nothing.
    ///
    /// Refused by `Failed`, `NoHeldRoot` (none is held), `NoSuchDevice`, `Fault` or `Damaged`.
    pub fn held_read(&mut self, id: DevId, sector: u64, out: &mut [u8]) -> Result<(), Refusal>
        requires whole { length out.old % 512 ≡ 0 }
        requires range { EndsInVolume (view M.Metadata) self.old (copy_id id) (sector + length out.old / 512) }
        ensures called { MatchResult result
            (λ _. PoolCalled M.Metadata self.old self.new (HeldRead id sector (length out.old / 512)) (Gave (sectors_of out.new)))
            (λ reason. PoolRefused M.Metadata self.old self.new (HeldRead id sector (length out.old / 512)) reason) }
        ensures length { length out.new ≡ length out.old }
        ensures answered { MatchResult result
            (λ _. IsAnswered (view M.Metadata) self.old self.new (HeldRead id sector (length out.old / 512)) (Gave (sectors_of out.new)))
            (λ reason. IsAnswered (view M.Metadata) self.old self.new (HeldRead id sector (length out.old / 512)) (Refused reason)) }
        ensures flushes { MatchResult result
            (λ _. Flushes (served M.Metadata) self.old self.new (HeldRead id sector (length out.old / 512)) (Gave (sectors_of out.new)))
            (λ reason. Flushes (served M.Metadata) self.old self.new (HeldRead id sector (length out.old / 512)) (Refused reason)) }
        ensures held { self.new ≡ record self.old { disk = after_read (not (refusals.is_fault result)) self.old.disk } }
    {
        if is_failed(self.mode) {
            return Err(Refusal::Failed);
        }
        if !holds_root(&self.metadata) {
            return Err(Refusal::NoHeldRoot);
        }
        let is_there = read_range(
            &mut self.disk,
            &self.metadata,
            &self.blocks,
            true,
            id,
            sector,
            out,
        )?;
        if !is_there {
            return Err(Refusal::NoSuchDevice);
        }
        Ok(())
    }
}
