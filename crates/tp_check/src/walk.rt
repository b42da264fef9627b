//! The walk over the trees: each node that is named is read once.
ghost use Rattle.std.specs.Prelude.{◌≡◌, ℕ, ◌+◌, ◌<◌, ◌≤◌, ◌==◌, ◌^◌, ◌⊎◌, ◌∷◌, set, min, if◌then◌else◌, nat_lt, replicate, List, Contains, Err, false, IfErr, IfOk, IsTrue, None, OnOk, count_by, length, not, slice_get, slice_index, slice_index_or};
ghost use Rattle.tp_model.specs.Geometry.{Geometry, IsTreeBlock, metadata_sector, sectors_of_image};
ghost use Rattle.tp_model.specs.Disk.{after_read, seen};
ghost use Rattle.tp_model.specs.Sectors.{Sector};
ghost use Rattle.tp_layout.specs.Node.{IsNode};
ghost use Rattle.tp_layout.specs.Super.{held_refs, roots_of};
ghost use Rattle.tp_layout.specs.declared.entry.Entry.{Entry};
ghost use Rattle.tp_image.specs.Counts.{is_naming_data, values};
ghost use Rattle.tp_image.specs.Faults.{IsNamed};
ghost use Rattle.tp_image.specs.Nodes.{block_at};
ghost use Rattle.tp_check.specs.declared.error.CheckError.{CheckError};
ghost use Rattle.tp_check.specs.Errors.{is_fault};
ghost use Rattle.tp_check.specs.Named.{IsOfForm};
ghost use Rattle.tp_check.specs.Walk.{AreRecorded, Closes, Comes, CountsNames, HasTreeFault, IsBegun, IsFresh, IsInside, IsRooted, IsSame, IsWalked, IsWhole, name_of, root_demand};

use crate::error::CheckError;
use crate::node::{are_in_range, good_node, test_sizes};
use crate::summary::{Demand, Summary, demand_under, summary_of, test};
use std::alloc::{AllocError, Global};
use std::marker::Model;
use tp_disk::{Disk, Fault};
use tp_layout::{BlockBytes, NodeView, Superblock, TreeKind, Version};
use tp_model::{Geometry, Mb};

/// How far a walk came.
#[derive(Drop)]
pub(crate) struct Walk {
    version: Version,
    geometry: Geometry,
    root: Mb,
    /// The root of a held copy, or block 0.
    held_root: Mb,
    /// For each metadata block what is known of the tree below it, once it was walked.
    known: Vec<Option<Summary>>,
    /// How often each metadata block and each data block is named, so far.
    metadata_names: Vec<u32>,
    data_names: Vec<u32>,
}

impl Model for Walk {
    ghost use Rattle.std.specs.Prelude.{◌∷◌};
    ghost use Rattle.tp_layout.specs.Super.{held_refs};
    ghost use Rattle.tp_check.specs.Walk.{IsSized, Progress};

    ghost Value = { Progress };

    ghost view = { λ w. record { version = w.version; geometry = w.geometry; roots = w.root ∷ held_refs w.held_root; known = w.known.items; metadata = w.metadata_names.items; others = w.data_names.items } };

    ghost invariant = { λ w. IsSized w.geometry w.known.items w.metadata_names.items w.data_names.items };
}

impl Walk {
    /// Nothing was walked yet: the roots and the fixed part are named. All memory of a check is taken here.
    pub(crate) fn new(alloc: Global, superblock: &Superblock) -> Result<Walk, AllocError>
        requires root { IsTreeBlock superblock.now.geometry superblock.now.root }
        requires held { (superblock.now.held_root ≡ 0) ⊎ IsTreeBlock superblock.now.geometry superblock.now.held_root }
        ensures { IfOk result (λ walk. IsFresh superblock.now.version superblock.now.geometry (roots_of superblock.now) walk) }
    {
        let geometry = superblock.geometry;
        let root = superblock.root;
        let held_root = superblock.held_root;
        let metadata_blocks = geometry.metadata_blocks() as usize;
        let known = Vec::from_elem(alloc, None, metadata_blocks)?;
        let mut metadata_names = Vec::from_elem(alloc, 0, metadata_blocks)?;
        let data_names = Vec::from_elem(alloc, 0, geometry.data_blocks() as usize)?;
        name_held(
            &mut metadata_names,
            geometry.fixed_part() as usize,
            root.number() as usize,
            held_root.number() as usize,
        );
        Ok(Walk {
            version: superblock.version,
            geometry,
            root,
            held_root,
            known,
            metadata_names,
            data_names,
        })
    }

    /// The geometry of the image.
    pub(crate) fn geometry(&self) -> Geometry
        ensures value { result ≡ self.now.geometry }
        ensures long { length self.now.known ≡ self.now.geometry.metadata_blocks }
    {
        self.geometry
    }

    /// The version of the image.
    pub(crate) fn version(&self) -> Version
        ensures { result ≡ self.now.version }
    {
        self.version
    }

    /// The root of the device tree, and that of a held copy, which is block 0 where none is held.
    fn roots(&self) -> (Mb, Mb)
        ensures { self.now.roots ≡ result.0 ∷ held_refs result.1 }
    {
        (self.root, self.held_root)
    }

    /// How often each metadata block is named.
    pub(crate) fn metadata_names(&self) -> &[u32]
        ensures names { result.now ≡ self.now.metadata }
        ensures long { length self.now.metadata ≡ self.now.geometry.metadata_blocks }
    {
        &self.metadata_names
    }

    /// How often each data block is named.
    pub(crate) fn data_names(&self) -> &[u32]
        ensures names { result.now ≡ self.now.others }
        ensures long { length self.now.others ≡ self.now.geometry.data_blocks }
    {
        &self.data_names
    }

    /// What is known of the tree below a block, if it was walked.
    fn known(&self, block: Mb) -> Option<Summary>
        requires { block < self.now.geometry.metadata_blocks }
        ensures { slice_index_or self.now.known block None ≡ result }
    {
        self.known[block.number() as usize]
    }

    /// Counts what a node names.
    fn count(&mut self, node: &NodeView)
        requires { IsInside self.old.geometry node.now }
        ensures names { CountsNames node.now self.old self.new }
        ensures same { IsSame self.old self.new }
        ensures known { self.new.known ≡ self.old.known }
    {
        if is_naming_data(node) {
            count(&mut self.data_names, node);
        } else {
            count(&mut self.metadata_names, node);
        }
    }

    /// Keeps what is known of a node below which all was walked, and counts what it names, once: a disk that does not
    /// return what it holds may show a block at two levels.
    fn close(&mut self, node: &NodeView, summary: Summary)
        requires place { node.now.own < self.old.geometry.metadata_blocks }
        requires inside { IsInside self.old.geometry node.now }
        ensures { Closes node.now summary self.old self.new }
    {
        if self.known(node.own()).is_none() {
            self.count(node);
        }
        let place = node.own().number() as usize;
        self.known[place] = Some(summary);
    }
}

/// Names the blocks of the fixed part, which are the first ones, the root, and the held root where there is one: one
/// block twice where it is both.
fn name_held(names: &mut [u32], fixed_part: usize, root: usize, held_root: usize)
    requires blank { names.old ≡ replicate (length names.old) 0 }
    requires apart { fixed_part ≤ root }
    requires inside { root < length names.old }
    requires held { (held_root ≡ 0) ⊎ ((fixed_part ≤ held_root) × (held_root < length names.old)) }
    ensures { (b : ℕ) → b < length names.old → slice_index names.new b ≡ count_by (λ r. b == r) (root ∷ held_refs held_root) + (if nat_lt b fixed_part then 1 else 0) }
{
    for place in 0..fixed_part {
        names[place] = 1;
    }
    names[root] = 1;
    if held_root > 0 {
        name(names, held_root);
    }
}

/// Whether a node's entries name data blocks: those of a leaf of a volume's tree do.
fn is_naming_data(node: &NodeView) -> bool
    ensures { result ≡ is_naming_data node.now.kind node.now.level }
{
    matches!(node.kind(), TreeKind::Mapping) && node.level() == 0
}

/// Counts one name more of a block, up to the greatest number.
fn name(names: &mut [u32], place: usize)
    requires { place < length names.old }
    ensures { names.new ≡ set names.old place (min (slice_index names.old place + 1) 4294967295) }
{
    names[place] = names[place].saturating_add(1);
}

/// Counts what the entries of a node name. No count comes near the greatest number where each node is counted once.
fn count(names: &mut [u32], node: &NodeView)
    requires inside { (e : Entry) → Contains node.now.entries e → e.value < length names.old }
    ensures { (b : ℕ) → b < length names.old → slice_index names.old b + length node.now.entries < 2 ^ 32
        → slice_index names.new b ≡ slice_index names.old b + count_by (λ x. x == b) (values node.now) }
{
    for i in 0..node.len() {
        name(names, node.entry(i).value as usize);
    }
}

/// Reads a metadata block.
fn read<D: Disk>(disk: &mut D, place: Mb, block: &mut BlockBytes) -> Result<(), CheckError>
    requires { metadata_sector (place + 1) ≤ (D.state disk.old).size }
    ensures bytes { OnOk result (IsTrue (D.state disk.old).is_honest → block.new ≡ block_at (seen (D.state disk.old).cells) place) }
    ensures only { IfErr result (λ e. e ≡ CheckError.Fault) }
    ensures state { D.state disk.new ≡ after_read (not (is_fault result)) (D.state disk.old) }
{
    match disk.read(place.first_sector(), block) {
        Ok(()) => Ok(()),
        Err(Fault) => Err(CheckError::Fault),
    }
}

/// The node that a block spells, where it is one as it is named, whose entries name blocks in their ranges and tell sizes that they may.
fn node_in<'a>(
    block: &'a BlockBytes,
    demand: &Demand,
    version: Version,
    geometry: &Geometry,
) -> Result<NodeView<'a>, CheckError>
    ensures good { IfOk result (λ n. IsNode n × IsOfForm demand.now.kind demand.now.level demand.now.block block.now n × IsInside geometry.now n × AreRecorded version geometry.now n) }
    ensures only { IfErr result (λ e. (e ≡ CheckError.BadNode) ⊎ (e ≡ CheckError.BadOrder) ⊎ (e ≡ CheckError.OutOfPlace) ⊎ (e ≡ CheckError.BadRecordSize)) }
    ensures fault { IfErr result (λ e. (image : List Sector) (roots : List ℕ) → block.now ≡ block_at image demand.now.block → IsTreeBlock geometry.now demand.now.block
        → IsNamed image geometry.now roots (name_of demand.now) → HasTreeFault image version geometry.now roots e) }
{
    let node = good_node(block, demand.block, demand.kind, demand.level)?;
    if !are_in_range(&node, geometry) {
        return Err(CheckError::OutOfPlace);
    }
    test_sizes(&node, version, geometry)?;
    Ok(node)
}

/// How many of a node's entries name nodes: all of them, or none.
fn names_of(node: &NodeView) -> usize
    ensures value { result ≡ (if is_naming_data node.now.kind node.now.level then 0 else length node.now.entries) }
    ensures inside { result ≤ length node.now.entries }
    ensures inner { 0 < result → is_naming_data node.now.kind node.now.level ≡ false }
{
    if is_naming_data(node) { 0 } else { node.len() }
}

/// What is known of the tree below a block that is named so, walked where it was not yet.
fn walk_below<D: Disk>(
    walk: &mut Walk,
    disk: &mut D,
    demand: &Demand,
) -> Result<Summary, CheckError>
    requires disk { sectors_of_image walk.old.geometry ≤ (D.state disk.old).size }
    requires place { IsTreeBlock walk.old.geometry demand.now.block }
    ensures comes { IfOk result (λ s. IsBegun (D.state disk.old) walk.old demand.now → Comes (seen (D.state disk.old).cells) walk.old walk.new demand.now s) }
    ensures fault { IfErr result (λ e. IsBegun (D.state disk.old) walk.old demand.now → HasTreeFault (seen (D.state disk.old).cells) walk.old.version walk.old.geometry walk.old.roots e) }
    ensures same { IsSame walk.old walk.new }
    ensures state { D.state disk.new ≡ after_read (not (is_fault result)) (D.state disk.old) }
{
    if let Some(summary) = walk.known(demand.block) {
        return Ok(summary);
    }
    let version = walk.version();
    let geometry = walk.geometry();
    let mut block = [0; 4096];
    read(disk, demand.block, &mut block)?;
    let node = node_in(&block, demand, version, &geometry)?;
    let mut last = 0;
    let mut below: u64 = 0;
    for i in 0..names_of(&node) {
        let child = demand_under(&geometry, demand, &node, i);
        let summary = walk_below(walk, disk, &child)?;
        test(&summary, &child)?;
        last = summary.last;
        below = below.saturating_add(summary.below);
    }
    let summary = summary_of(&node, last, below);
    walk.close(&node, summary);
    Ok(summary)
}

/// What a root of a device tree is named as.
fn root_demand(root: Mb) -> Demand
    ensures { result ≡ root_demand root }
{
    Demand {
        kind: TreeKind::Device,
        level: None,
        low: 0,
        high: 16_777_216,
        block: root,
        mapped: None,
    }
}

/// Walks the device tree below one of the roots, and the trees of its volumes, but for what was walked before.
fn walk_devices<D: Disk>(walk: &mut Walk, disk: &mut D, root: Mb) -> Result<(), CheckError>
    requires disk { sectors_of_image walk.old.geometry ≤ (D.state disk.old).size }
    requires place { IsTreeBlock walk.old.geometry root }
    requires there { Contains walk.old.roots root }
    ensures rooted { OnOk result (IsTrue (D.state disk.old).is_honest → IsWalked (seen (D.state disk.old).cells) walk.old → IsRooted (seen (D.state disk.old).cells) walk.old walk.new root) }
    ensures fault { IfErr result (λ e. IsTrue (D.state disk.old).is_honest → IsWalked (seen (D.state disk.old).cells) walk.old → HasTreeFault (seen (D.state disk.old).cells) walk.old.version walk.old.geometry walk.old.roots e) }
    ensures same { IsSame walk.old walk.new }
    ensures state { D.state disk.new ≡ after_read (not (is_fault result)) (D.state disk.old) }
{
    let demand = root_demand(root);
    let summary = walk_below(walk, disk, &demand)?;
    test(&summary, &demand)?;
    if summary.below > 65536 {
        return Err(CheckError::OutOfPlace);
    }
    Ok(())
}

/// Walks the device tree below its root, and the trees of all volumes; then those of the held copy, if there is one.
pub(crate) fn walk_all<D: Disk>(walk: &mut Walk, disk: &mut D) -> Result<(), CheckError>
    requires disk { sectors_of_image walk.old.geometry ≤ (D.state disk.old).size }
    requires places { (r : ℕ) → Contains walk.old.roots r → IsTreeBlock walk.old.geometry r }
    requires fresh { IsFresh walk.old.version walk.old.geometry walk.old.roots walk.old }
    ensures whole { OnOk result (IsTrue (D.state disk.old).is_honest → IsWhole (seen (D.state disk.old).cells) walk.new) }
    ensures fault { IfErr result (λ e. IsTrue (D.state disk.old).is_honest → HasTreeFault (seen (D.state disk.old).cells) walk.old.version walk.old.geometry walk.old.roots e) }
    ensures same { IsSame walk.old walk.new }
    ensures state { D.state disk.new ≡ after_read (not (is_fault result)) (D.state disk.old) }
{
    let (root, held_root) = walk.roots();
    walk_devices(walk, disk, root)?;
    if held_root.number() == 0 {
        return Ok(());
    }
    walk_devices(walk, disk, held_root)?;
    Ok(())
}
