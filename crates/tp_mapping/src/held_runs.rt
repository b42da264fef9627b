//! What a held copy of the trees tells of its volumes.

ghost use Rattle.std.specs.Prelude.{◌≡◌, ◌+◌, ◌<◌, ◌≤◌, ◌^◌, ℕ, [], IfOk, IfSome, IsTrue, None, OnOk, Some, is_some, length, slice_index_or};
ghost use Rattle.std.specs.Option.{option_map};
ghost use Rattle.tp_model.specs.Geometry.{sectors_of_image};
ghost use Rattle.tp_model.specs.Told.{IsToldSize};
ghost use Rattle.tp_model.specs.Disk.{DiskState};
ghost use Rattle.tp_sharing.specs.Volumes.{Volumes, copy_id, device_of};
ghost use Rattle.tp_mapping.specs.declared.mapped.Mapped.{Mapped};
ghost use Rattle.tp_mapping.specs.Mapping.{LooksUp};
ghost use Rattle.tp_mapping.specs.Telling.{AreCopied, IsCopied};
ghost use Rattle.tp_mapping.specs.Trees.{StandForVolumes};

use crate::mapped::Mapped;
use crate::mapping::MOST_RUN;
use crate::runs::clear;
use crate::tree_runs::places_at;
use crate::trees::TreeMapping;
use crate::volume::{There, volume_at};
use tp_btree::block_of;
use tp_counts::StoreError;
use tp_disk::Disk;
use tp_model::{DevId, Pb, Vb};

/// The data block of what was told.
fn place_of(told: Option<Mapped>) -> Option<Pb>
    ensures { result ≡ option_map (λ (at : Mapped). at.place) told }
{
    match told {
        Some(at) => Some(at.place),
        None => None,
    }
}

/// The data blocks of what was told.
fn put_places(told: &[Option<Mapped>], places: &mut [Option<Pb>])
    requires { length places.old ≡ length told.now }
    ensures length { length places.new ≡ length places.old }
    ensures value { (i : ℕ) → i < length places.old → slice_index_or places.new i None ≡ option_map (λ (at : Mapped). at.place) (slice_index_or told.now i None) }
{
    for i in 0..places.len() {
        places[i] = place_of(told[i]);
    }
}

impl TreeMapping {
    /// What the held copy has of a device. `None` where it has no such device, and where no copy is held.
    fn copy_of<D: Disk>(&self, disk: &mut D, device: DevId) -> Result<Option<There>, StoreError>
        requires disk { sectors_of_image self.now.tm.geometry ≤ (D.state disk.old).size }
        ensures looked { LooksUp (StandForVolumes self.now) (D.state disk.old) (D.state disk.new) result (λ answer now. IsCopied self.now (D.state disk.new) now device answer) }
        ensures inside { IfOk result (λ answer. IfSome answer (λ there. there.volume.root < self.now.tm.geometry.metadata_blocks)) }
        ensures told { IfOk result (λ answer. IfSome answer (λ there. IsToldSize self.now.tm.geometry there.volume.size)) }
    {
        let held = self.tm.held_root();
        let number = held.number() as u64;
        if number == 0 {
            return Ok(None);
        }
        let root = block_of(&self.tm, number)?;
        volume_at(&self.tm, disk, root, device)
    }

    /// The places of a run of virtual blocks of a device of the held copy, by what `told` takes.
    fn find_copied<D: Disk>(
        &self,
        disk: &mut D,
        device: DevId,
        first: Vb,
        told: &mut [Option<Mapped>],
        places: &mut [Option<Pb>],
    ) -> Result<bool, StoreError>
        requires disk { sectors_of_image self.now.tm.geometry ≤ (D.state disk.old).size }
        requires few { length places.old ≤ 17 }
        requires run { first + length places.old ≤ 2 ^ 24 }
        requires same { length places.old ≡ length told.old }
        ensures length { length places.new ≡ length places.old }
        ensures looked { LooksUp (StandForVolumes self.now) (D.state disk.old) (D.state disk.new) result (λ is_there now. (is_there ≡ is_some (device_of (copy_id device) now))
            × AreCopied device first now (length places.old) places.new) }
        ensures inside { OnOk result ((i : ℕ) → i < length places.old → IfSome (slice_index_or places.new i None) (λ place. place < self.now.tm.geometry.data_blocks)) }
    {
        match self.copy_of(disk, device)? {
            Some(there) => {
                places_at(&self.tm, disk, there, first, told)?;
                put_places(told, places);
                Ok(true)
            }
            None => {
                clear(told);
                put_places(told, places);
                Ok(false)
            }
        }
    }

    /// Looks up the virtual blocks of a device of the held copy from `first` on, one for each place, 17 at most. It tells whether the copy has
    /// such a device; where it has none, and where no copy is held, no block has a data block. After an `Err` some places may have been told.
    pub fn held_run<D: Disk>(
        &self,
        disk: &mut D,
        device: DevId,
        first: Vb,
        places: &mut [Option<Pb>],
    ) -> Result<bool, StoreError>
        requires disk { sectors_of_image self.now.tm.geometry ≤ (D.state disk.old).size }
        requires few { length places.old ≤ 17 }
        requires run { first + length places.old ≤ 2 ^ 24 }
        ensures length { length places.new ≡ length places.old }
        ensures looked { LooksUp (StandForVolumes self.now) (D.state disk.old) (D.state disk.new) result (λ is_there now. (is_there ≡ is_some (device_of (copy_id device) now))
            × AreCopied device first now (length places.old) places.new) }
        ensures inside { OnOk result ((i : ℕ) → i < length places.old → IfSome (slice_index_or places.new i None) (λ place. place < self.now.tm.geometry.data_blocks)) }
    {
        let mut told = [None; MOST_RUN];
        let count = places.len();
        self.find_copied(disk, device, first, &mut told[..count], places)
    }
}
