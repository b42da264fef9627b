//! What is kept of a block that was walked, and what it is named as.
ghost use Rattle.std.specs.Prelude.{◌≡◌, ◌<◌, ◌-◌, ◌↔◌, false, IfErr, IsTrue, MatchOption, OnOk, Some, length, slice_get, slice_index, ℕ};
ghost use Rattle.tp_layout.specs.Node.{keys};
ghost use Rattle.tp_layout.specs.declared.entry.Entry.{Entry};
ghost use Rattle.tp_model.specs.Geometry.{IsTreeBlock};
ghost use Rattle.tp_image.specs.Counts.{is_naming_data};
ghost use Rattle.tp_image.specs.Faults.{end_of};
ghost use Rattle.tp_check.specs.Walk.{Fails, IsAstray, IsCounted, IsLike, Passes, demand_under, depth, summary_of};

use crate::error::CheckError;
use crate::node::least_of;
use tp_layout::{NodeView, TreeKind};
use tp_model::{Geometry, Mb};

/// What is kept of the tree below a block, so that each node that names it can be tested with no second look.
#[derive(Clone, Copy)]
pub(crate) struct Summary {
    pub kind: TreeKind,
    pub level: u32,
    /// How many entries the node has.
    pub len: usize,
    /// The first key of the node, and the greatest one below it; 0 where there is none.
    pub first: u64,
    pub last: u64,
    /// How many entries its leaves have.
    pub below: u64,
}

/// What a block is named as: a root of its kind, or a child of this level, for the keys from `low` up to, not including,
/// `high`.
#[derive(Clone, Copy)]
pub(crate) struct Demand {
    pub kind: TreeKind,
    pub level: Option<u32>,
    pub low: u64,
    pub high: u64,
    pub block: Mb,
    /// How many entries its leaves have, where a record tells it.
    pub mapped: Option<u64>,
}

/// Whether a block has the kind and the level that it is named with.
fn is_like(summary: &Summary, demand: &Demand) -> bool
    ensures { IsTrue result ↔ IsLike summary.now demand.now }
{
    if summary.kind != demand.kind {
        return false;
    }
    match demand.level {
        Some(level) => summary.level == level,
        None => true,
    }
}

/// Whether keys lie outside the interval that a block is named with, or those of an inner node do not begin at its lower
/// end.
fn is_astray(summary: &Summary, demand: &Demand) -> bool
    ensures { IsTrue result ↔ IsAstray summary.now demand.now }
{
    if summary.first < demand.low {
        return true;
    }
    if summary.level > 0 {
        if summary.first != demand.low {
            return true;
        }
    }
    demand.high <= summary.last
}

/// Whether there are as many entries as a record tells, if one does.
fn is_counted(summary: &Summary, demand: &Demand) -> bool
    ensures { IsTrue result ↔ IsCounted summary.now demand.now }
{
    match demand.mapped {
        Some(mapped) => summary.below == mapped,
        None => true,
    }
}

/// Tests what is known of a block against what it is named as.
pub(crate) fn test(summary: &Summary, demand: &Demand) -> Result<(), CheckError>
    ensures passes { OnOk result (Passes summary.now demand.now) }
    ensures fails { IfErr result (λ e. Fails e summary.now demand.now) }
{
    if !is_like(summary, demand) {
        return Err(CheckError::BadNode);
    }
    if summary.len < least_of(demand.level.is_none(), summary.kind, summary.level) {
        return Err(CheckError::HalfEmpty);
    }
    if summary.len > 0 {
        if is_astray(summary, demand) {
            return Err(CheckError::BadOrder);
        }
    }
    if !is_counted(summary, demand) {
        return Err(CheckError::BadMapped);
    }
    Ok(())
}

/// What the entry at this place of a node names: the root of a volume in a leaf of the device tree, and else a child.
pub(crate) fn demand_under(
    geometry: &Geometry,
    demand: &Demand,
    node: &NodeView,
    i: usize,
) -> Demand
    requires inside { i < length node.now.entries }
    requires like { (node.now.kind ≡ demand.now.kind) × MatchOption demand.now.level (Unit {0}) (λ level. node.now.level ≡ level) }
    requires inner { is_naming_data node.now.kind node.now.level ≡ false }
    requires place { (e : Entry) → slice_get node.now.entries i ≡ Some e → IsTreeBlock geometry.now e.value }
    ensures value { (e : Entry) → slice_get node.now.entries i ≡ Some e → result ≡ demand_under geometry.now demand.now node.now i e }
    ensures place { IsTreeBlock geometry.now result.block }
    ensures falls { depth result.kind result.level < depth demand.now.kind demand.now.level }
{
    let _ = geometry.virtual_blocks();
    let entry = node.entry(i);
    let block = Mb::new(entry.value as u32);
    if node.level() == 0 {
        return Demand {
            kind: TreeKind::Mapping,
            level: None,
            low: 0,
            high: geometry.told_blocks(entry.size),
            block,
            mapped: Some(entry.mapped),
        };
    }
    Demand {
        kind: demand.kind,
        level: Some(node.level() - 1),
        low: entry.key,
        high: end_of(node, i + 1, demand.high),
        block,
        mapped: None,
    }
}

/// Where the interval before the entry at this place ends: at its key, or where there is none at the end of all.
fn end_of(node: &NodeView, i: usize, high: u64) -> u64
    ensures { result ≡ end_of (slice_get node.now.entries i) high }
{
    if i < node.len() {
        return node.key(i);
    }
    high
}

/// The key at the end of a node, or 0 where it has none.
fn last_key(node: &NodeView) -> u64
    ensures { result ≡ slice_index (keys node.now.entries) (length node.now.entries - 1) }
{
    if node.len() == 0 {
        return 0;
    }
    node.key(node.len() - 1)
}

/// The first key of a node, or 0 where it has none.
fn first_key(node: &NodeView) -> u64
    ensures { result ≡ slice_index (keys node.now.entries) 0 }
{
    if node.len() == 0 {
        return 0;
    }
    node.key(0)
}

/// What is kept of a node below whose children, if it has some, this is the last key, and there are so many entries.
pub(crate) fn summary_of(node: &NodeView, last: u64, below: u64) -> Summary
    ensures { result ≡ summary_of node.now last below }
{
    let is_leaf = node.level() == 0;
    Summary {
        kind: node.kind(),
        level: node.level(),
        len: node.len(),
        first: first_key(node),
        last: if is_leaf { last_key(node) } else { last },
        below: if is_leaf { node.len() as u64 } else { below },
    }
}
