//! What a commit writes and keeps.

ghost use Rattle.std.specs.Prelude.{◌≡◌, ◌-◌, ◌<◌, ◌≤◌, ℕ, List, Err, OnOk, [], is_err, not};
ghost use Rattle.tp_model.specs.Geometry.{fixed_part, sectors_of_image};
ghost use Rattle.tp_model.specs.Disk.{DiskState, FaultHasCause, IsSameDisk, seen};
ghost use Rattle.tp_model.specs.DiskStops.{LeavesOutside, SameOutside};
ghost use Rattle.tp_layout.specs.declared.counts.Part.TheVariants.{Data, Metadata};
ghost use Rattle.tp_image.specs.Areas.{HoldsCounts, counts_sector, counts_sectors};
ghost use Rattle.tp_counts.specs.Counts.{DifferMarked, SameUnmarked, SpellUnmarked};
ghost use Rattle.tp_refs.specs.Store.{Store, committed, node_at};
ghost use Rattle.tp_tm.specs.Tm.{data_counts, kept_now, kept_of, metadata_counts, now_of};
ghost use Rattle.tp_tm.specs.Keeps.{LeavesKept};
ghost use Rattle.tp_tm.specs.Holds.{Holds};

use crate::Tm;
use tp_counts::BlockMarks;
use tp_disk::{Disk, Fault};
use tp_layout::{Part, SlotId};

impl Tm {
    /// Brings each node to its block. It keeps nothing: that takes a flush.
    ///
    /// After an `Err` some blocks may hold anything that the last commit does not name. At any moment a stop leaves all
    /// that the last commit names as before.
    pub fn write_nodes<D: Disk>(&mut self, disk: &mut D) -> Result<(), Fault>
        requires disk { sectors_of_image self.old.geometry ≤ (D.state disk.old).size }
        ensures holds { (opens held : List ℕ) (s : Store) → Holds self.old (D.state disk.old) opens held s → Holds self.new (D.state disk.new) opens held s }
        ensures unchanged { self.new ≡ self.old }
        ensures any_moment { LeavesKept self.old.metadata_kept (D.state disk.old) (D.state disk.new) }
        ensures same_disk { IsSameDisk (D.state disk.old) (D.state disk.new) }
        ensures cause { FaultHasCause (is_err result) (D.state disk.old) (D.state disk.new) }
        ensures flushes { (D.state disk.new).flushes ≡ (D.state disk.old).flushes }
    {
        // Each node was written at once.
        let _ = disk.sectors();
        Ok(())
    }

    /// Marks each count block of a part that has another count now than in the last commit. Of a run of blocks in which no
    /// count was changed since then it looks at none.
    pub fn changed_blocks(&self, part: Part) -> BlockMarks
        ensures same { SameUnmarked (now_of self.now part) (kept_of self.now part) result }
        ensures differ { DifferMarked (now_of self.now part) (kept_of self.now part) result }
    {
        match part {
            Part::Metadata => self.metadata_counts.changed_blocks(),
            Part::Data => self.data_counts.changed_blocks(),
        }
    }

    /// Writes each count block of a part that is marked into an area of the disk, with the counts of now. The others are
    /// to hold these already. It keeps nothing: that takes a flush.
    ///
    /// At any moment a stop leaves all but this part's sectors of the area as before; after an `Err` some of these are
    /// written, each by itself. Where no node stands in the fixed part, all nodes stand as before.
    pub fn write_area<D: Disk>(
        &mut self,
        disk: &mut D,
        part: Part,
        area: SlotId,
        marks: &BlockMarks,
    ) -> Result<(), Fault>
        requires disk { sectors_of_image self.old.geometry ≤ (D.state disk.old).size }
        ensures written { OnOk result (SpellUnmarked (seen (D.state disk.old).cells) self.old.geometry part area (now_of self.old part) marks.now
            → HoldsCounts (seen (D.state disk.new).cells) self.old.geometry part area (now_of self.old part)) }
        ensures holds { (opens held : List ℕ) (s : Store) → Holds self.old (D.state disk.old) opens held s
            → ((b : ℕ) → b < fixed_part self.old.geometry → (node_at s b).rank ≡ 0) → Holds self.new (D.state disk.new) opens held s }
        ensures any_moment { LeavesOutside (counts_sector self.old.geometry part area) (counts_sectors self.old.geometry part) (D.state disk.old) (D.state disk.new) }
        ensures outside { SameOutside (counts_sector self.old.geometry part area) (counts_sectors self.old.geometry part) (seen (D.state disk.old).cells) (seen (D.state disk.new).cells) }
        ensures same_disk { IsSameDisk (D.state disk.old) (D.state disk.new) }
        ensures cause { FaultHasCause (is_err result) (D.state disk.old) (D.state disk.new) }
        ensures flushes { (D.state disk.new).flushes ≡ (D.state disk.old).flushes }
        ensures unchanged { self.new ≡ self.old }
    {
        match part {
            Part::Metadata => self.metadata_counts.write_area(disk, area, marks),
            Part::Data => self.data_counts.write_area(disk, area, marks),
        }
    }

    /// A commit was kept: its counts are those of now, of both parts. No block is to be open.
    pub fn keep(&mut self)
        ensures kept { self.new ≡ kept_now self.old }
        ensures holds { (disk : DiskState) (held : List ℕ) (s : Store) → Holds self.old disk [] held s → Holds self.new disk [] held (committed s) }
    {
        self.metadata_counts.keep();
        self.data_counts.keep();
    }
}
