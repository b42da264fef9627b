//! A mapping as trees on a disk.

ghost use Rattle.std.specs.Prelude.{◌≡◌, ◌<◌, Err, IfErr, IfOk};
ghost use Rattle.tp_model.specs.Disk.{DiskState};
ghost use Rattle.tp_sharing.specs.Volumes.{Volumes};
ghost use Rattle.tp_mapping.specs.Trees.{StandForVolumes};
ghost use Rattle.tp_mapping.specs.Lending.{LendsStore};
ghost use Rattle.std.specs.Borrow.{sem};

use tp_btree::block_of;
use tp_counts::StoreError;
use tp_model::Mb;
use tp_tm::Tm;

/// A mapping as trees on a disk: a device tree, whose entries name the roots of the volumes' trees.
#[derive(Drop)]
pub struct TreeMapping {
    pub(crate) tm: Tm,
    // The root of the device tree.
    pub(crate) root: Mb,
}

impl TreeMapping {
    /// The mapping below this root of a store of nodes.
    pub fn new(tm: Tm, root: Mb) -> TreeMapping
        ensures store { result.tm ≡ tm }
        ensures root { result.root ≡ root }
    {
        let _ = (tm.geometry(), root.number());
        TreeMapping { tm, root }
    }

    /// The root of the device tree.
    pub fn root(&self) -> Mb
        ensures { result ≡ self.now.root }
    {
        self.root
    }

    /// The store of nodes.
    pub fn store(&self) -> &Tm
        ensures { result.now ≡ self.now.tm }
    {
        &self.tm
    }

    /// The store of nodes, as a commit needs it. The root stays.
    pub fn store_mut(&mut self) -> &mut Tm
        ensures* writes_back { sem 𝓛 (LendsStore self.entry result) }
        ensures value { result.now ≡ self.old.tm }
    {
        &mut self.tm
    }

    /// The root of the device tree. `Damaged` where it is no block of the pool.
    pub(crate) fn device_root(&self) -> Result<Mb, StoreError>
        ensures inside { IfOk result (λ place. (place ≡ self.now.root) × (place < self.now.tm.geometry.metadata_blocks)) }
        ensures damaged { result ≡ Err StoreError.Damaged → (disk : DiskState) (now kept : Volumes) → StandForVolumes self.now disk now kept → ⊥ }
        ensures only { IfErr result (λ error. error ≡ StoreError.Damaged) }
    {
        let here = self.root.number() as u64;
        block_of(&self.tm, here)
    }
}
