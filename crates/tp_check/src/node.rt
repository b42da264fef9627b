//! One node, and what can be told of it alone.
ghost use Rattle.std.specs.Prelude.{◌≡◌, ℕ, ◌<◌, ◌≤◌, ◌⊎◌, ◌↔◌, Bool, true, false, Contains, Err, IfErr, IfOk, IsTrue, MatchOption, OnOk, length, not};
ghost use Rattle.std.specs.List.Sorted.{IsStrictlyIncreasing};
ghost use Rattle.tp_layout.specs.Node.{IsFormed, IsNode, NodeValue, keys, node_bytes};
ghost use Rattle.tp_layout.specs.declared.entry.Entry.{Entry};
ghost use Rattle.tp_layout.specs.declared.kind.TreeKind.TheVariants.{Device};
ghost use Rattle.tp_image.specs.Counts.{is_naming_data};
ghost use Rattle.tp_image.specs.Rules.{IsInRange, IsRecordSize, least_of};
ghost use Rattle.tp_check.specs.Named.{IsOfForm};
ghost use Rattle.tp_check.specs.Walk.{AreRecorded, IsMissized};
ghost use Rattle.tp_check.specs.declared.error.CheckError.{CheckError};

use crate::error::CheckError;
use tp_layout::{BlockBytes, NodeView, TreeKind, Version, level_of, node_damage};
use tp_model::{Geometry, Mb, Refusal};

/// The node of this kind and number that the block spells, of this level where one is demanded.
///
/// `BadNode` where the block spells no node of this form, and `BadOrder` where only the keys of that node do not ascend.
pub(crate) fn good_node<'a>(
    block: &'a BlockBytes,
    place: Mb,
    kind: TreeKind,
    level: Option<u32>,
) -> Result<NodeView<'a>, CheckError>
    ensures good { IfOk result (λ n. IsNode n × IsOfForm kind level place block.now n) }
    ensures node { result ≡ Err CheckError.BadNode → (n : NodeValue) → IsOfForm kind level place block.now n → ⊥ }
    ensures order { result ≡ Err CheckError.BadOrder → (n : NodeValue) × (IsOfForm kind level place block.now n × (IsStrictlyIncreasing (keys n.entries) → ⊥)) }
    ensures only { IfErr result (λ e. (e ≡ CheckError.BadNode) ⊎ (e ≡ CheckError.BadOrder)) }
{
    if !is_level(level_of(block), level) {
        return Err(CheckError::BadNode);
    }
    match node_damage(block, place, kind) {
        None => Ok(NodeView::known(block, kind)),
        Some(Refusal::BadOrder) => Err(CheckError::BadOrder),
        Some(_) => Err(CheckError::BadNode),
    }
}

/// Whether this is the level that is demanded, if one is.
fn is_level(level: u32, demanded: Option<u32>) -> bool
    ensures { IsTrue result ↔ MatchOption demanded (Unit {0}) (λ wanted. level ≡ wanted) }
{
    match demanded {
        Some(wanted) => level == wanted,
        None => true,
    }
}

/// Whether the values of the node's entries lie in their ranges: data blocks in a leaf of a volume's tree, and else tree
/// blocks.
pub(crate) fn are_in_range(node: &NodeView, geometry: &Geometry) -> bool
    ensures all { IsTrue result → (e : Entry) → Contains node.now.entries e → IsInRange geometry.now (is_naming_data node.now.kind node.now.level) e.value }
    ensures one { IsTrue (not result) → (e : Entry) × (Contains node.now.entries e × (IsInRange geometry.now (is_naming_data node.now.kind node.now.level) e.value → ⊥)) }
{
    let (from, to) = range_of(node, geometry);
    for i in 0..node.len() {
        let value = node.entry(i).value;
        if value < from || to <= value {
            return false;
        }
    }
    true
}

/// The range that the values of the node's entries lie in.
fn range_of(node: &NodeView, geometry: &Geometry) -> (u64, u64)
    ensures { (value : ℕ) → IsInRange geometry.now (is_naming_data node.now.kind node.now.level) value ↔ ((result.0 ≤ value) × (value < result.1)) }
{
    if matches!(node.kind(), TreeKind::Mapping) && node.level() == 0 {
        (0, geometry.data_blocks() as u64)
    } else {
        (
            geometry.fixed_part() as u64,
            geometry.metadata_blocks() as u64,
        )
    }
}

/// What is wrong with a size that a record tells, if anything is.
fn size_fault(size: u64, version: Version, geometry: &Geometry) -> Option<CheckError>
    ensures { MatchOption result (IsRecordSize version geometry.now size) (λ e. IsMissized version geometry.now size e) }
{
    if size == 0 {
        return None;
    }
    match version {
        Version::OneSize => Some(CheckError::BadNode),
        Version::OwnSizes => {
            if geometry.may_tell(size) {
                return None;
            }
            Some(CheckError::BadRecordSize)
        }
    }
}

/// Tests the sizes that the node's entries tell, where they are records.
pub(crate) fn test_sizes(
    node: &NodeView,
    version: Version,
    geometry: &Geometry,
) -> Result<(), CheckError>
    ensures all { OnOk result (AreRecorded version geometry.now node.now) }
    ensures one { IfErr result (λ x. (node.now.kind ≡ Device) × (node.now.level ≡ 0) × (e : Entry) × Contains node.now.entries e × IsMissized version geometry.now e.size x) }
{
    if !matches!(node.kind(), TreeKind::Device) || node.level() > 0 {
        return Ok(());
    }
    for i in 0..node.len() {
        if let Some(error) = size_fault(node.entry(i).size, version, geometry) {
            return Err(error);
        }
    }
    Ok(())
}

/// The least entries of a node of this kind and level, where it is a root or is none.
pub(crate) fn least_of(is_root: bool, kind: TreeKind, level: u32) -> usize
    ensures { result ≡ least_of is_root kind level }
{
    if !is_root {
        return kind.most_entries(level) / 2;
    }
    if level == 0 { 0 } else { 2 }
}
