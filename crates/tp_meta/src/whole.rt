//! The metadata of a pool as trees, and what is in memory beside them.
ghost use Rattle.std.specs.Prelude.{◌≡◌, ◌≢◌, ◌⊎◌, ◌||◌, ◌+◌, ◌<◌, ◌≤◌, ℕ, [], Err, IfErr, IfOk, IsTrue, Ok, false, not, replicate, true};
ghost use Rattle.tp_model.specs.Geometry.{Geometry, sectors_of_image};
ghost use Rattle.tp_model.specs.Refusals.{is_fault};
ghost use Rattle.tp_model.specs.Disk.{DiskState, FaultHasCause, IsSameDisk, IsSettled, after_read, seen};
ghost use Rattle.tp_model.specs.DiskStops.{Leaves, LeavesOnly};
ghost use Rattle.tp_layout.specs.declared.counts.Part.{Part};
ghost use Rattle.tp_layout.specs.declared.superblock.SlotId.{SlotId};
ghost use Rattle.tp_layout.specs.declared.superblock.Superblock.{Superblock};
ghost use Rattle.tp_image.specs.Slots.{Chooses};
ghost use Rattle.tp_image.specs.Fresh.{IsFreshOf};
ghost use Rattle.tp_refs.specs.Store.{Store};
ghost use Rattle.tp_stored.specs.Commit.{IsCommit, held_by};
ghost use Rattle.tp_stored.specs.Contents.{Contents, HoldsContents, contents_of};
ghost use Rattle.tp_tm.specs.Tm.{kept_now};
ghost use Rattle.tp_tm.specs.Holds.{Holds};
ghost use Rattle.tp_meta.specs.Format.{IsFormatting};
ghost use Rattle.tp_meta.specs.Opening.{IsOpenedFrom, IsUnopened};
ghost use Rattle.tp_meta.specs.Standing.{StandsFor, changed_of, fresh_contents, geometry_of, opened_of};
ghost use Rattle.tp_meta.specs.Reformatting.{IsReformatting};
ghost use Rattle.tp_meta.specs.Stale.{in_area, marks_in};

use crate::devices::count_devices;
use crate::formatting::{first_superblock, format};
use crate::marks::Marks;
use crate::opening::open_store;
use crate::stale::StaleBlocks;
use std::alloc::{AllocError, Global};
use tp_disk::Disk;
use tp_layout::Superblock;
use tp_mapping::TreeMapping;
use tp_model::{Geometry, Refusal};
use tp_tm::Tm;

/// The metadata of a pool: its trees, the superblock of the last commit, and what the next one is to say.
#[derive(Drop)]
pub struct Meta {
    pub(crate) mapping: TreeMapping,
    pub(crate) last: Superblock,
    pub(crate) transaction_id: u64,
    pub(crate) needs_check: bool,
    /// How many devices there are, where that is known.
    pub(crate) devices: Option<u32>,
    /// For each data block, whether a slot lost it since the last commit.
    pub(crate) marks: Marks,
    /// Whether anything was changed since the last commit.
    pub(crate) is_changed: bool,
    /// The count blocks that do not hold the counts of the last commit, as far as is known. Behind a box, since the
    /// metadata are moved at each call of a pool.
    pub(crate) stale: Box<StaleBlocks>,
}

/// The memory of what is kept beside the trees.
#[derive(Drop)]
struct MarksMemory {
    marks: Marks,
    stale: Box<StaleBlocks>,
}

impl MarksMemory {
    /// No data block is marked, and nothing is known of what the areas hold.
    fn new(alloc: Global, blocks: usize) -> Result<MarksMemory, AllocError>
        ensures marks { IfOk result (λ room. room.marks ≡ replicate blocks false) }
        ensures stale { IfOk result (λ room. (area : SlotId) (part : Part) → marks_in (in_area room.stale.value area) part ≡ replicate 1024 true) }
    {
        let marks = Marks::new(alloc, blocks)?;
        let stale = Box::new(alloc, StaleBlocks::all())?;
        Ok(MarksMemory { marks, stale })
    }
}

impl Meta {
    /// The metadata of the last commit of a disk. It writes nothing, and counts the devices.
    ///
    /// It refuses as `open_store` does, and with `Memory` where there is none for the marks of data blocks and count blocks.
    pub fn open<D: Disk>(alloc: Global, disk: &mut D) -> Result<Meta, Refusal>
        ensures stands { IfOk result (λ meta. IsTrue (D.state disk.old).is_honest → IsSettled (D.state disk.old).cells
            → (g : Geometry) (c : Contents) → HoldsContents g c (seen (D.state disk.old).cells) → StandsFor meta (D.state disk.new) c c × (geometry_of meta ≡ g)) }
        // The superblock that the slots give, with the counts of its area.
        ensures told { IfOk result (λ meta. IsTrue (D.state disk.old).is_honest
            → IsOpenedFrom (seen (D.state disk.old).cells) (opened_of meta)) }
        // On a disk that is not honest too.
        ensures unchanged { IfOk result (λ meta. changed_of meta ≡ false) }
        ensures whole { IfOk result (λ meta. sectors_of_image (geometry_of meta) ≤ (D.state disk.old).size) }
        ensures why { IfErr result (λ refusal. refusal ≢ Refusal.Fault → refusal ≢ Refusal.Memory → IsTrue (D.state disk.old).is_honest
            → IsUnopened (seen (D.state disk.old).cells) refusal) }
        ensures refused { IfErr result (λ refusal. refusal ≢ Refusal.Fault → refusal ≢ Refusal.Memory → IsTrue (D.state disk.old).is_honest
            → (g : Geometry) (c : Contents) → HoldsContents g c (seen (D.state disk.old).cells) → ⊥) }
        ensures only { IfErr result (λ refusal. (refusal ≡ Refusal.Fault) ⊎ (refusal ≡ Refusal.Memory) ⊎ (refusal ≡ Refusal.BadVersion) ⊎ (refusal ≡ Refusal.Damaged) ⊎ (refusal ≡ Refusal.NotAPool)) }
        ensures state { D.state disk.new ≡ after_read (not (is_fault result)) (D.state disk.old) }
        ensures cause { FaultHasCause (is_fault result) (D.state disk.old) (D.state disk.new) }
    {
        let opened = open_store(alloc, disk)?;
        let blocks = opened.superblock.geometry.data_blocks() as usize;
        let Ok(room) = MarksMemory::new(alloc, blocks) else {
            return Err(Refusal::Memory);
        };
        let mut meta = Meta::unchanged(opened.tm, &opened.superblock, room);
        let Ok(devices) = count_devices(&meta.mapping, disk) else {
            return Err(Refusal::Fault);
        };
        meta.devices = devices;
        Ok(meta)
    }

    /// Makes a disk that of an empty pool, as `format` does, and gives its metadata. It refuses as `format` does.
    pub fn format<D: Disk>(alloc: Global, disk: &mut D, geometry: Geometry) -> Result<Meta, Refusal>
        ensures stands { IfOk result (λ meta. IsTrue (D.state disk.old).is_honest → StandsFor meta (D.state disk.new) (fresh_contents geometry) (fresh_contents geometry)
            × (geometry_of meta ≡ geometry)) }
        ensures fresh { IfOk result (λ meta. IsFreshOf geometry (seen (D.state disk.new).cells)) }
        ensures settled { IfOk result (λ meta. IsSettled (D.state disk.new).cells) }
        ensures unchanged { IfOk result (λ meta. changed_of meta ≡ false) }
        ensures whole { IfOk result (λ meta. (geometry_of meta ≡ geometry) × (sectors_of_image geometry ≤ (D.state disk.old).size)) }
        ensures any_moment { (last : Superblock) → IsTrue (D.state disk.old).is_honest → Leaves (λ image. Chooses image (Ok last)) (D.state disk.old).cells
            → LeavesOnly (D.state disk.old) (D.state disk.new) (IsFormatting last geometry (D.state disk.old).cells) }
        // The commit of an old pool stands whole until its superblock is cleared.
        ensures commits { (last : Superblock) (kept : Store) → IsTrue (D.state disk.old).is_honest → Leaves (λ image. IsCommit image last kept) (D.state disk.old).cells
            → LeavesOnly (D.state disk.old) (D.state disk.new) (IsReformatting last kept geometry (D.state disk.old).cells) }
        ensures small { result ≡ Err Refusal.BadGeometry → (D.state disk.old).size < sectors_of_image geometry }
        ensures large { (D.state disk.old).size < sectors_of_image geometry → (result ≡ Err Refusal.BadGeometry) ⊎ (result ≡ Err Refusal.Memory) }
        ensures untouched { IfErr result (λ refusal. refusal ≢ Refusal.Fault → D.state disk.new ≡ D.state disk.old) }
        ensures flushes { ((D.state disk.old).flushes ≤ (D.state disk.new).flushes) × ((D.state disk.new).flushes ≤ (D.state disk.old).flushes + 4) }
        ensures flushed { IfOk result (λ meta. (D.state disk.new).flushes ≡ (D.state disk.old).flushes + 4) }
        ensures only { IfErr result (λ refusal. (refusal ≡ Refusal.Memory) ⊎ (refusal ≡ Refusal.BadGeometry) ⊎ (refusal ≡ Refusal.Fault)) }
        ensures same { IsSameDisk (D.state disk.old) (D.state disk.new) }
        ensures cause { FaultHasCause (is_fault result) (D.state disk.old) (D.state disk.new) }
    {
        let Ok(room) = MarksMemory::new(alloc, geometry.data_blocks() as usize) else {
            return Err(Refusal::Memory);
        };
        let tm = format(alloc, disk, geometry)?;
        let mut meta = Meta::unchanged(tm, &first_superblock(geometry), room);
        meta.devices = Some(0);
        Ok(meta)
    }

    /// From now on the pool wants no check. Where it wanted none, nothing is changed.
    pub fn clear_needs_check(&mut self)
        ensures stands { (disk : DiskState) (now kept : Contents) → StandsFor self.old disk now kept
            → StandsFor self.new disk (record now { needs_check = false }) kept }
        ensures geometry { geometry_of self.new ≡ geometry_of self.old }
        ensures changed { changed_of self.new ≡ (changed_of self.old || self.old.needs_check) }
    {
        self.is_changed |= self.needs_check;
        self.needs_check = false;
    }

    /// The metadata of a commit that is the last one. Its devices were not counted yet.
    fn unchanged(tm: Tm, last: &Superblock, room: MarksMemory) -> Meta
        ensures stands { (disk : DiskState) (s : Store) → IsTrue disk.is_honest → Leaves (λ image. IsCommit image last.now s) disk.cells
            → Holds tm disk [] (held_by last.now.geometry last.now.root last.now.held_root) s → tm.geometry ≡ last.now.geometry → tm.held_root ≡ last.now.held_root → kept_now tm ≡ tm → room.marks ≡ replicate last.now.geometry.data_blocks false
            → ((area : SlotId) (part : Part) → marks_in (in_area room.stale.value area) part ≡ replicate 1024 true)
            → StandsFor result disk (contents_of last.now s) (contents_of last.now s) }
        ensures tm { result.mapping.tm ≡ tm }
        ensures last { result.last ≡ last.now }
        ensures changed { changed_of result ≡ false }
    {
        let MarksMemory { marks, stale } = room;
        let _ = tm.geometry();
        let mapping = TreeMapping::new(tm, last.root);
        Meta {
            mapping,
            last: *last,
            transaction_id: last.transaction_id,
            needs_check: last.needs_check,
            devices: None,
            marks,
            is_changed: false,
            stale,
        }
    }
}
