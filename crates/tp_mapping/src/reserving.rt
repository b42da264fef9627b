//! A held copy of the device tree.

ghost use Rattle.std.specs.Prelude.{◌≡◌, ◌++◌, ◌<◌, ◌≤◌, ℕ, Err, IfErr, IsTrue, OnOk, map, not};
ghost use Rattle.tp_model.specs.Geometry.{sectors_of_image};
ghost use Rattle.tp_counts.specs.StoreErrors.{is_fault};
ghost use Rattle.tp_tm.specs.Tm.{free_metadata, used_metadata};
ghost use Rattle.tp_mapping.specs.Mapping.{Ran, without_copies};
ghost use Rattle.tp_model.specs.Disk.{DiskState, after_read};
ghost use Rattle.tp_sharing.specs.Volumes.{Volumes, as_copy};
ghost use Rattle.tp_mapping.specs.Trees.{StandForVolumes};

use crate::trees::TreeMapping;
use tp_btree::{block_of, drop_tree, share};
use tp_counts::StoreError;
use tp_disk::Disk;
use tp_layout::TreeKind;
use tp_model::Mb;

impl TreeMapping {
    /// Holds a copy of the volumes, where none is held. It takes no block of a mapping that stands.
    pub fn reserve(&mut self) -> Result<(), StoreError>
        ensures made { OnOk result ((disk : DiskState) (now kept : Volumes) → StandForVolumes self.old disk now kept → self.old.tm.held_root ≡ 0
            → StandForVolumes self.new disk (now ++ map as_copy now) kept) }
        ensures root { OnOk result ((self.new.tm.held_root ≡ self.old.root) × (self.new.root ≡ self.old.root)) }
        ensures some { OnOk result ((disk : DiskState) (now kept : Volumes) → StandForVolumes self.old disk now kept → 0 < self.new.tm.held_root) }
        ensures damaged { result ≡ Err StoreError.Damaged → (disk : DiskState) (now kept : Volumes) → StandForVolumes self.old disk now kept → ⊥ }
        ensures only { IfErr result (λ error. error ≡ StoreError.Damaged) }
        ensures used { OnOk result ((disk : DiskState) (now kept : Volumes) → StandForVolumes self.old disk now kept
            → (used_metadata self.new.tm ≡ used_metadata self.old.tm) × (free_metadata self.old.tm ≤ free_metadata self.new.tm)) }
        ensures ran { (disk : DiskState) → Ran 1 (is_fault result) (free_metadata self.old.tm) (free_metadata self.new.tm) self.old.tm.metadata_kept self.new.tm.metadata_kept
            self.old.tm.geometry self.new.tm.geometry disk disk }
        ensures same_kept { self.new.tm.data_kept ≡ self.old.tm.data_kept }
    {
        let _ = self.tm.geometry();
        let root = self.device_root()?;
        share(&mut self.tm, root)?;
        self.tm.hold(root);
        self.root = root;
        Ok(())
    }

    /// Gives the held copy up, where one is held: what nothing else names is free. It takes no block.
    pub fn release<D: Disk>(&mut self, disk: &mut D) -> Result<(), StoreError>
        requires disk { sectors_of_image self.old.tm.geometry ≤ (D.state disk.old).size }
        ensures made { OnOk result (IsTrue (D.state disk.old).is_honest → (now kept : Volumes) → StandForVolumes self.old (D.state disk.old) now kept → 0 < self.old.tm.held_root
            → StandForVolumes self.new (D.state disk.new) (without_copies now) kept) }
        ensures damaged { result ≡ Err StoreError.Damaged → IsTrue (D.state disk.old).is_honest → (now kept : Volumes) → StandForVolumes self.old (D.state disk.old) now kept → 0 < self.old.tm.held_root → ⊥ }
        ensures root { OnOk result ((self.new.tm.held_root ≡ 0) × (self.new.root ≡ self.old.root)) }
        ensures used { used_metadata self.new.tm ≤ used_metadata self.old.tm }
        ensures ran { Ran 0 (is_fault result) (free_metadata self.old.tm) (free_metadata self.new.tm) self.old.tm.metadata_kept self.new.tm.metadata_kept
            self.old.tm.geometry self.new.tm.geometry (D.state disk.old) (D.state disk.new) }
        ensures same_kept { self.new.tm.data_kept ≡ self.old.tm.data_kept }
        ensures state { D.state disk.new ≡ after_read (not (is_fault result)) (D.state disk.old) }
    {
        let _ = self.tm.geometry();
        let held = self.tm.held_root();
        let number = held.number() as u64;
        let root = block_of(&self.tm, number)?;
        let none = Mb::new(0);
        self.tm.hold(none);
        drop_tree(&mut self.tm, disk, TreeKind::Device, root)
    }
}
