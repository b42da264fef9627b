//! A node, read where it lies.

ghost use Rattle.std.specs.Prelude.{◌≡◌, ℕ, ◌+◌, ◌*◌, ◌≤◌, ◌<◌, ◌↔◌, length, IsTrue, Contains, All, ◌≢◌, [], IfOk, IfNone, IfSome, ◌⊎◌, slice_get, slice_index, take, drop, true};
ghost use Rattle.std.specs.List.Sorted.{IsStrictlyIncreasing};
ghost use Rattle.tp_layout.specs.Node.{NodeValue, IsFormed, IsNode, SpellsNode, node_bytes, keys, entry_len};
ghost use Rattle.tp_layout.specs.Value.{node_value};
ghost use Rattle.tp_layout.specs.Reading.{entries_of, HasForm, Passes};

use crate::damaged::Damaged;
use crate::entry::Entry;
use crate::kind::{TreeKind, entry_len_of, is_long_of};
use crate::node::Node;
use crate::numbers::{BlockBytes, is_zero, rest, u32_at, u64_at};
use arrayvec::ArrayVec;
use std::marker::Model;
use tp_model::{Mb, Refusal};

/// The entry at a place among the first ones.
fn entry_at(entries: &[u8], long: bool, count: usize, i: usize) -> Entry
    requires room { entry_len long * count ≤ length entries.now }
    requires within { i < count }
    ensures { slice_get (entries_of long count entries.now) i ≡ Some result }
{
    let at = entry_len_of(long) * i;
    let key = u64_at(entries, at);
    let value = u64_at(entries, at + 8);
    if long {
        Entry {
            key,
            value,
            mapped: u64_at(entries, at + 16),
            size: u64_at(entries, at + 24),
        }
    } else {
        Entry {
            key,
            value,
            mapped: 0,
            size: 0,
        }
    }
}

/// Whether the keys of the first entries ascend.
fn ascend(entries: &[u8], long: bool, count: usize) -> bool
    requires { entry_len long * count ≤ length entries.now }
    ensures { IsTrue result ↔ IsStrictlyIncreasing (keys (entries_of long count entries.now)) }
{
    let step = entry_len_of(long);
    let mut fine = true;
    // No early exit, so that the loop has no branch but its own.
    for i in 1..count {
        fine &= u64_at(entries, step * (i - 1)) < u64_at(entries, step * i);
    }
    fine
}

/// The head's bytes that say nothing.
fn unused_head(block: &BlockBytes) -> &[u8]
    ensures { result.now ≡ take 44 (drop 20 block.now) }
{
    &block[20..64]
}

/// The bytes behind the head.
fn body(block: &BlockBytes) -> &[u8]
    ensures value { result.now ≡ drop 64 block.now }
    ensures size { length result.now ≡ 4032 }
{
    &block[64..]
}

/// How many of the first entries have a key that is at most this one.
fn rank_of(entries: &[u8], long: bool, count: usize, key: u64) -> usize
    requires room { entry_len long * count ≤ length entries.now }
    requires ascending { IsStrictlyIncreasing (keys (entries_of long count entries.now)) }
    ensures within { result ≤ count }
    ensures below { (i : ℕ) → i < result → slice_index (keys (entries_of long count entries.now)) i ≤ key }
    ensures above { (i : ℕ) → result ≤ i → i < count → key < slice_index (keys (entries_of long count entries.now)) i }
{
    let step = entry_len_of(long);
    let mut low = 0;
    let mut high = count;
    while low < high {
        let middle = low + (high - low) / 2;
        if u64_at(entries, step * middle) <= key {
            low = middle + 1;
        } else {
            high = middle;
        }
    }
    low
}

/// Whether the form of the block is that of a node of this kind and number.
fn is_formed(block: &BlockBytes, own: Mb, kind: TreeKind) -> bool
    ensures { IsTrue result ↔ HasForm kind own block.now }
{
    if u32_at(block, 0) != kind.number() {
        return false;
    }
    let level = u32_at(block, 4);
    if level > kind.most_level() {
        return false;
    }
    if u64_at(block, 8) != own.number() as u64 {
        return false;
    }
    let long = is_long_of(kind, level);
    let count = u32_at(block, 16) as usize;
    if count > kind.most_entries(level) {
        return false;
    }
    if !is_zero(unused_head(block)) {
        return false;
    }
    let entries = body(block);
    is_zero(rest(entries, entry_len_of(long) * count))
}

/// Whether the keys of a block of this form ascend.
fn is_ordered(block: &BlockBytes, own: Mb, kind: TreeKind) -> bool
    requires { HasForm kind own block.now }
    ensures { IsTrue result ↔ Passes kind own block.now }
{
    let level = u32_at(block, 4);
    let long = is_long_of(kind, level);
    let count = u32_at(block, 16) as usize;
    ascend(body(block), long, count)
}

/// Whether the block spells a good node of this kind and number.
fn passes(block: &BlockBytes, own: Mb, kind: TreeKind) -> bool
    ensures { IsTrue result ↔ Passes kind own block.now }
{
    if !is_formed(block, own, kind) {
        return false;
    }
    is_ordered(block, own, kind)
}

/// The level that a block says, whether or not the keys of its node ascend.
pub fn level_of(block: &BlockBytes) -> u32
    ensures { (n : NodeValue) → IsFormed n → block.now ≡ node_bytes n → result ≡ n.level }
{
    u32_at(block, 4)
}

/// What is wrong with a block that should spell a good node of this kind and number, for reports: `BadNode` where
/// its form is broken, and `BadOrder` where only its keys do not ascend. `None` where it spells such a node.
pub fn node_damage(block: &BlockBytes, own: Mb, kind: TreeKind) -> Option<Refusal>
    ensures none { IfNone result ((n : NodeValue) × (IsNode n × (n.kind ≡ kind) × (n.own ≡ own) × (block.now ≡ node_bytes n))) }
    ensures form { result ≡ Some Refusal.BadNode → (n : NodeValue) → IsFormed n → n.kind ≡ kind → n.own ≡ own → block.now ≡ node_bytes n → ⊥ }
    ensures order { result ≡ Some Refusal.BadOrder → (n : NodeValue) × (IsFormed n × (n.kind ≡ kind) × (n.own ≡ own) × (block.now ≡ node_bytes n) × (IsStrictlyIncreasing (keys n.entries) → ⊥)) }
    ensures only { IfSome result (λ r. (r ≡ Refusal.BadNode) ⊎ (r ≡ Refusal.BadOrder)) }
{
    if !is_formed(block, own, kind) {
        return Some(Refusal::BadNode);
    }
    if !is_ordered(block, own, kind) {
        return Some(Refusal::BadOrder);
    }
    None
}

/// A good node, looked at in the block that spells it. Nothing is copied.
#[derive(Drop)]
pub struct NodeView<'a> {
    block: &'a BlockBytes,
    kind: TreeKind,
    level: u32,
    long: bool,
    len: usize,
}

impl<'a> Model for NodeView<'a> {
    ghost use Rattle.tp_layout.specs.Node.{NodeValue};

    ghost Value = { NodeValue };

    ghost use Rattle.tp_layout.specs.Reading.{node_of, IsViewed};

    ghost view = { λ v. node_of v.kind v.block.now };

    ghost invariant = { λ v. IsViewed v.kind v.level v.long v.len v.block.now };
}

impl<'a> NodeView<'a> {
    /// The node of this kind that stands in the block of this number, or `Damaged` exactly where the block spells
    /// no such node. How full the node is, and whether its keys and values lie in their ranges, is for its tree to
    /// say and not looked at.
    pub fn read(block: &'a BlockBytes, own: Mb, kind: TreeKind) -> Result<NodeView<'a>, Damaged>
        // What is read is a good node, and the block is its spelling.
        ensures found { IfOk result (λ v. IsNode v × (v.kind ≡ kind) × (v.own ≡ own) × (block.now ≡ node_bytes v)) }
        // Each good node that is spelled so is read.
        ensures only { (n : NodeValue) → IsNode n → n.kind ≡ kind → n.own ≡ own → block.now ≡ node_bytes n → result ≡ Ok n }
    {
        if !passes(block, own, kind) {
            return Err(Damaged);
        }
        Ok(NodeView::known(block, kind))
    }

    /// The node in a block that is known to spell a good one of this kind, as one that was written here. Only its
    /// head is read.
    pub fn known(block: &'a BlockBytes, kind: TreeKind) -> NodeView<'a>
        requires { SpellsNode kind block.now }
        ensures found { IsNode result × (result.kind ≡ kind) × (block.now ≡ node_bytes result) }
        ensures only { (n : NodeValue) → IsNode n → n.kind ≡ kind → block.now ≡ node_bytes n → result ≡ n }
    {
        let level = u32_at(block, 4);
        NodeView {
            block,
            kind,
            level,
            long: is_long_of(kind, level),
            len: u32_at(block, 16) as usize,
        }
    }

    /// The node as a value that can be changed.
    pub fn to_node(&self) -> Node
        ensures value { node_value result ≡ self.now }
        ensures good { IsNode (node_value result) }
    {
        let mut entries = ArrayVec::new();
        for i in 0..self.len() {
            entries.push(self.entry(i));
        }
        Node {
            kind: self.kind(),
            level: self.level(),
            own: self.own(),
            entries,
        }
    }

    /// Which tree the node belongs to.
    pub fn kind(&self) -> TreeKind
        ensures { result ≡ self.now.kind }
    {
        self.kind
    }

    /// The number of the node's block, as the block says it.
    pub fn own(&self) -> Mb
        ensures { result ≡ self.now.own }
    {
        let block = self.block;
        Mb::new(u64_at(block, 8) as u32)
    }

    /// The level: 0 for a leaf.
    pub fn level(&self) -> u32
        ensures value { result ≡ self.now.level }
        ensures good { IsNode self.now }
    {
        self.level
    }

    /// How many entries there are.
    pub fn len(&self) -> usize
        ensures value { result ≡ length self.now.entries }
        ensures good { IsNode self.now }
    {
        self.len
    }

    /// Whether there are no entries. Only a root may be so.
    pub fn is_empty(&self) -> bool
        ensures { IsTrue result ↔ (self.now.entries ≡ []) }
    {
        self.len() == 0
    }

    /// The key of the entry at this place.
    pub fn key(&self, i: usize) -> u64
        requires { i < length self.now.entries }
        ensures { result ≡ slice_index (keys self.now.entries) i }
    {
        let block = self.block;
        u64_at(body(block), entry_len_of(self.long) * i)
    }

    /// The entry at this place.
    pub fn entry(&self, i: usize) -> Entry
        requires { i < length self.now.entries }
        ensures { slice_get self.now.entries i ≡ Some result }
    {
        let block = self.block;
        entry_at(body(block), self.long, self.len, i)
    }

    /// How many entries have a key that is at most this one: where it is over 0, the entry before
    /// this place is the last of them.
    pub fn rank(&self, key: u64) -> usize
        ensures within { result ≤ length self.now.entries }
        ensures below { (i : ℕ) → i < result → slice_index (keys self.now.entries) i ≤ key }
        ensures above { (i : ℕ) → result ≤ i → i < length self.now.entries → key < slice_index (keys self.now.entries) i }
        ensures good { IsNode self.now }
    {
        let block = self.block;
        rank_of(body(block), self.long, self.len, key)
    }

    /// The entry with this key, if there is one.
    pub fn find(&self, key: u64) -> Option<Entry>
        ensures found { IfSome result (λ e. Contains self.now.entries e × (e.key ≡ key)) }
        ensures none { IfNone result (All (λ e. e.key ≢ key) self.now.entries) }
    {
        let rank = self.rank(key);
        if rank == 0 {
            return None;
        }
        let entry = self.entry(rank - 1);
        if entry.key == key { Some(entry) } else { None }
    }
}
