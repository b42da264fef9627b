//! Which count blocks a commit has to write.
//!
//! An area holds the counts of the commit before the last one, but for the blocks whose counts the last one changed.
ghost use Rattle.std.specs.Prelude.{◌≡◌, ◌≢◌, ℕ, false, replicate, true};
ghost use Rattle.tp_counts.specs.Counts.{DifferMarked, IsUnmarked, SameUnmarked};
ghost use Rattle.tp_layout.specs.declared.counts.Part.{Part};
ghost use Rattle.tp_layout.specs.declared.superblock.SlotId.{SlotId};
ghost use Rattle.tp_tm.specs.Tm.{kept_of, now_of};
ghost use Rattle.tp_meta.specs.Stale.{in_area, marks_in};

use tp_counts::BlockMarks;
use tp_layout::{Part, SlotId};
use tp_tm::Tm;

/// How many count blocks a part has at most in an area.
const BLOCKS: usize = 1024;

/// A mark for each count block of an area, of both parts.
#[derive(Drop)]
pub struct AreaMarks {
    pub(crate) metadata: BlockMarks,
    pub(crate) data: BlockMarks,
}

/// For each area, which of its count blocks may hold other counts than those of the last commit.
#[derive(Drop)]
pub struct StaleBlocks {
    pub(crate) zero: AreaMarks,
    pub(crate) one: AreaMarks,
}

impl AreaMarks {
    /// Each block is marked.
    pub(crate) fn all() -> AreaMarks
        ensures metadata { result.metadata ≡ replicate 1024 true }
        ensures others { result.data ≡ replicate 1024 true }
    {
        AreaMarks {
            metadata: [true; BLOCKS],
            data: [true; BLOCKS],
        }
    }

    /// No block is marked.
    fn none() -> AreaMarks
        ensures metadata { result.metadata ≡ replicate 1024 false }
        ensures others { result.data ≡ replicate 1024 false }
    {
        AreaMarks {
            metadata: [false; BLOCKS],
            data: [false; BLOCKS],
        }
    }

    /// The blocks that have another count now than in the last commit.
    pub(crate) fn changed_in(tm: &Tm) -> AreaMarks
        ensures same { (part : Part) → SameUnmarked (now_of tm.now part) (kept_of tm.now part) (marks_in result part) }
        ensures differ { (part : Part) → DifferMarked (now_of tm.now part) (kept_of tm.now part) (marks_in result part) }
    {
        AreaMarks {
            metadata: tm.changed_blocks(Part::Metadata),
            data: tm.changed_blocks(Part::Data),
        }
    }

    /// The blocks that either of the two marks.
    pub(crate) fn joined(&self, other: &AreaMarks) -> AreaMarks
        ensures both { (part : Part) (j : ℕ) → IsUnmarked (marks_in result part) j → IsUnmarked (marks_in self.now part) j × IsUnmarked (marks_in other.now part) j }
        ensures only { (part : Part) (j : ℕ) → IsUnmarked (marks_in self.now part) j → IsUnmarked (marks_in other.now part) j → IsUnmarked (marks_in result part) j }
    {
        AreaMarks {
            metadata: either(&self.metadata, &other.metadata),
            data: either(&self.data, &other.data),
        }
    }
}

impl StaleBlocks {
    /// Nothing is known of what the areas hold.
    pub fn all() -> StaleBlocks
        ensures { (area : SlotId) (part : Part) → marks_in (in_area result area) part ≡ replicate 1024 true }
    {
        StaleBlocks {
            zero: AreaMarks::all(),
            one: AreaMarks::all(),
        }
    }

    /// The blocks of an area.
    pub(crate) fn of(&self, area: SlotId) -> &AreaMarks
        ensures { result.now ≡ in_area self.now area }
    {
        match area {
            SlotId::Zero => &self.zero,
            SlotId::One => &self.one,
        }
    }

    /// Called behind a commit into `area`, which holds the counts of now from then on. The blocks that this commit changed are stale in the other area, beside
    /// those that were stale there before.
    pub(crate) fn kept_in(&mut self, area: SlotId, changed: &AreaMarks)
        ensures others { (other : SlotId) (part : Part) (j : ℕ) → other ≢ area → IsUnmarked (marks_in (in_area self.new other) part) j
            → IsUnmarked (marks_in (in_area self.old other) part) j × IsUnmarked (marks_in changed.now part) j }
        ensures only { (other : SlotId) (part : Part) (j : ℕ) → other ≢ area → IsUnmarked (marks_in (in_area self.old other) part) j → IsUnmarked (marks_in changed.now part) j
            → IsUnmarked (marks_in (in_area self.new other) part) j }
        ensures here { (part : Part) → marks_in (in_area self.new area) part ≡ replicate 1024 false }
    {
        match area {
            SlotId::Zero => pass_on(&mut self.zero, &mut self.one, changed),
            SlotId::One => pass_on(&mut self.one, &mut self.zero, changed),
        }
    }
}

/// No block is stale in the area that was written, and the changed ones are in the other one.
fn pass_on(here: &mut AreaMarks, other: &mut AreaMarks, changed: &AreaMarks)
    ensures here { (part : Part) → marks_in here.new part ≡ replicate 1024 false }
    ensures other { (part : Part) (j : ℕ) → IsUnmarked (marks_in other.new part) j → IsUnmarked (marks_in other.old part) j × IsUnmarked (marks_in changed.now part) j }
    ensures only { (part : Part) (j : ℕ) → IsUnmarked (marks_in other.old part) j → IsUnmarked (marks_in changed.now part) j → IsUnmarked (marks_in other.new part) j }
{
    *here = AreaMarks::none();
    *other = other.joined(changed);
}

/// The marks of either list.
fn either(first: &BlockMarks, second: &BlockMarks) -> BlockMarks
    ensures both { (j : ℕ) → IsUnmarked result j → IsUnmarked first.now j × IsUnmarked second.now j }
    ensures only { (j : ℕ) → IsUnmarked first.now j → IsUnmarked second.now j → IsUnmarked result j }
{
    let mut marks = [true; BLOCKS];
    for j in 0..BLOCKS {
        marks[j] = first[j] | second[j];
    }
    marks
}
