ghost use Rattle.std.specs.Prelude.{◌≡◌, ◌+◌, ◌^◌, ◌<◌, ◌≤◌, IsTrue, ◌++◌, IsSome, length, slice_set};
ghost use Rattle.std.specs.List.Sorted.{IsStrictlyIncreasing};
ghost use Rattle.tp_layout.specs.Node.{FitsEntry, IsNode, is_long, keys, most_level};
ghost use Rattle.tp_layout.specs.Value.{node_value};
ghost use Rattle.tp_layout.specs.Entries.{found, with_entry};
ghost use Rattle.tp_layout.specs.declared.entry.Entry.{Entry};

use std::alloc::{AllocError, Global};
use tp_layout::{Entry, Node, TreeKind};
use tp_model::Mb;
use tp_nodes::{
    child_index, empty, find, insert_behind, join, put, rank, refill, replace, replace_at, split,
    take, take_at,
};

/// Numbers in no order, the same in each run.
#[derive(Drop)]
struct Numbers {
    state: u64,
}

impl Numbers {
    fn next(&mut self) -> u64 {
        self.state = self
            .state
            .wrapping_mul(6_364_136_223_846_793_005)
            .wrapping_add(1_442_695_040_888_963_407);
        self.state / 4_294_967_296
    }
}

/// An entry of this node; one of a leaf of the device tree has mapped blocks and a size.
fn entry_for(node: &Node, key: u64, value: u64) -> Entry
    ensures fits { FitsEntry (is_long node.now.kind node.now.level) result }
    ensures key { result.key ≡ key }
{
    let mapped = if node.kind.most_entries(node.level) == 126 {
        value
    } else {
        0
    };
    Entry {
        key,
        value,
        mapped,
        size: mapped,
    }
}

/// Puts a new key in where there is room; replaces or takes a key that is there. A plain list does the same.
fn change(node: &mut Node, plain: &mut Vec<Entry>, key: u64, value: u64) -> Result<(), AllocError>
    requires { IsNode (node_value node.old) }
    ensures { IsNode (node_value node.new) }
{
    let entry = entry_for(node, key, value);
    if find(node, key).is_none() {
        if node.entries.len() < node.kind.most_entries(node.level) {
            put(node, entry);
            plain.push(entry)?;
        }
    } else if value % 2 == 0 {
        replace(node, entry);
        plain.retain(|e| e.key != key);
        plain.push(entry)?;
    } else {
        take(node, key);
        plain.retain(|e| e.key != key);
    }
    plain.sort_by_key(|e| e.key)?;
    Ok(())
}

/// The index of the entry that has the key.
fn index_of(node: &Node, key: u64) -> usize
    requires good { IsNode (node_value node.now) }
    requires there { IsSome (found key node.now.entries.items) }
    ensures within { result < length node.now.entries.items }
    ensures with { (e : Entry) → e.key ≡ key → slice_set node.now.entries.items result e ≡ with_entry e node.now.entries.items }
{
    rank(node, key) - 1
}

/// Replaces or takes a key that is there by its index, and puts a new one in behind the last smaller one.
fn change_at(
    node: &mut Node,
    plain: &mut Vec<Entry>,
    key: u64,
    value: u64,
) -> Result<(), AllocError>
    requires { IsNode (node_value node.old) }
    ensures { IsNode (node_value node.new) }
{
    let entry = entry_for(node, key, value);
    if find(node, key).is_some() {
        let index = index_of(node, key);
        plain.retain(|e| e.key != key);
        if value % 2 == 0 {
            replace_at(node, index, entry);
            plain.push(entry)?;
        } else {
            take_at(node, index);
        }
    } else if rank(node, key) > 0 && node.entries.len() < node.kind.most_entries(node.level) {
        let index = child_index(node, key);
        insert_behind(node, index, entry);
        plain.push(entry)?;
    }
    plain.sort_by_key(|e| e.key)?;
    Ok(())
}

fn plain_rank(plain: &[Entry], key: u64) -> usize {
    plain.iter().filter(|e| e.key <= key).count()
}

fn plain_find(plain: &[Entry], key: u64) -> Option<Entry> {
    for entry in plain {
        if entry.key == key {
            return Some(*entry);
        }
    }
    None
}

/// Whether the node has the entries of the list, and finds a key as a walk over the list does.
fn is_same(node: &Node, plain: &[Entry], key: u64) -> bool
    requires { IsNode (node_value node.now) }
{
    let told = (rank(node, key), find(node, key));
    node.entries.as_slice() == plain && told == (plain_rank(plain, key), plain_find(plain, key))
}

/// Makes two changes at keys below `keys`, and tells whether the node is the same as the list then.
fn changed(
    node: &mut Node,
    plain: &mut Vec<Entry>,
    numbers: &mut Numbers,
    keys: u64,
) -> Result<bool, AllocError>
    requires good { IsNode (node_value node.old) }
    requires some { 0 < keys }
    ensures { IsNode (node_value node.new) }
{
    let key = numbers.next() % keys;
    change(node, plain, key, numbers.next())?;
    let key = numbers.next() % keys;
    change_at(node, plain, key, numbers.next())?;
    Ok(is_same(node, plain, numbers.next() % keys))
}

/// Many changes at keys below `keys`: whether the node is the same as the list behind each two of them.
fn changed_often(node: &mut Node, plain: &mut Vec<Entry>, keys: u64) -> Result<bool, AllocError>
    requires good { IsNode (node_value node.old) }
    requires some { 0 < keys }
{
    let mut numbers = Numbers { state: 7 };
    let mut same = true;
    for round in 0..1500 {
        let still = changed(node, plain, &mut numbers, keys)?;
        same = same && still;
    }
    Ok(same)
}

/// Changes at keys below `keys`, of which a node may have room for some only: whether it stays the same as a list.
fn changes(alloc: Global, kind: TreeKind, level: u32, keys: u64) -> bool
    requires level { level ≤ most_level kind }
    requires some { 0 < keys }
{
    let mut node = empty(kind, level, Mb::new(9));
    let mut plain = Vec::new(alloc);
    match changed_often(&mut node, &mut plain, keys) {
        Ok(same) => same && plain.len() > 10,
        Err(_) => false,
    }
}

/// The same of each kind of node.
fn changes_of_each(alloc: Global, keys: u64) -> [bool; 4]
    requires { 0 < keys }
{
    [
        changes(alloc, TreeKind::Mapping, 0, keys),
        changes(alloc, TreeKind::Mapping, 3, keys),
        changes(alloc, TreeKind::Device, 2, keys),
        changes(alloc, TreeKind::Device, 0, keys),
    ]
}

#[test]
fn changes_of_each_kind(rt: HostRuntime) {
    let same = [
        changes_of_each(rt.alloc(), 40),
        changes_of_each(rt.alloc(), 300),
        changes_of_each(rt.alloc(), 3000),
    ];
    assert!(rt; same == [[true; 4]; 3]);
}

/// Puts an entry in where its key is new and there is room.
fn add(node: &mut Node, key: u64)
    requires { IsNode (node_value node.old) }
    ensures good { IsNode (node_value node.new) }
    ensures kind { node.new.kind ≡ node.old.kind }
    ensures level { node.new.level ≡ node.old.level }
{
    let entry = entry_for(node, key, key / 2);
    if find(node, key).is_none() && node.entries.len() < node.kind.most_entries(node.level) {
        put(node, entry);
    }
}

/// A node of so many entries, put in in no order, with keys from `from` on in steps of 10.
fn filled(kind: TreeKind, level: u32, from: u64, count: u64) -> Node
    requires level { level ≤ most_level kind }
    requires from { from < 2 ^ 32 }
    requires count { count ≤ 252 }
    ensures good { IsNode (node_value result) }
    ensures kind { result.kind ≡ kind }
    ensures level { result.level ≡ level }
{
    let mut node = empty(kind, level, Mb::new(9));
    for i in 0..count {
        add(&mut node, from + 10 * (i * 89 % 252));
    }
    node
}

/// Whether the keys of the right node are above those of the left one.
fn is_before(left: &Node, right: &Node) -> bool
    requires left { IsNode (node_value left.now) }
    requires right { IsNode (node_value right.now) }
    ensures { IsTrue result → IsStrictlyIncreasing (keys (left.now.entries.items ++ right.now.entries.items)) }
{
    let count = left.entries.len();
    if count == 0 || right.entries.len() == 0 {
        return true;
    }
    let last = left.entries[count - 1];
    let first = right.entries[0];
    if last.key >= first.key {
        return false;
    }
    true
}

fn both(alloc: Global, left: &Node, right: &Node) -> Result<Vec<Entry>, AllocError> {
    let mut all = Vec::new(alloc);
    all.extend_from_slice(left.entries.as_slice())?;
    all.extend_from_slice(right.entries.as_slice())?;
    Ok(all)
}

/// Refills two nodes: whether they have the same entries then, and how many the left one has. `None` where the keys of the
/// right one are not above those of the left one, or where there are too few for two nodes.
fn refilled(
    alloc: Global,
    left: &mut Node,
    right: &mut Node,
) -> Result<Option<(bool, usize)>, AllocError>
    requires left { IsNode (node_value left.old) }
    requires right { IsNode (node_value right.old) }
    requires kind { right.old.kind ≡ left.old.kind }
    requires level { right.old.level ≡ left.old.level }
{
    let all = both(alloc, left, right)?;
    let before = is_before(left, right);
    let enough = left.entries.len() + right.entries.len() >= left.kind.most_entries(left.level);
    if !before {
        return Ok(None);
    }
    if !enough {
        return Ok(None);
    }
    refill(left, right);
    let again = both(alloc, left, right)?;
    Ok(Some((again.as_slice() == all.as_slice(), left.entries.len())))
}

/// Refills two nodes of these numbers of entries: whether they have these, and then the same entries and half of them each.
fn refills(alloc: Global, kind: TreeKind, level: u32, counts: (u64, u64)) -> bool
    requires level { level ≤ most_level kind }
    requires left { counts.0 ≤ 252 }
    requires right { counts.1 ≤ 252 }
{
    let mut left = filled(kind, level, 5, counts.0);
    let mut right = filled(kind, level, 1_000_000, counts.1);
    let lens = (left.entries.len() as u64, right.entries.len() as u64);
    let half = (counts.0 + counts.1) as usize / 2;
    match refilled(alloc, &mut left, &mut right) {
        Ok(told) => (lens, told) == (counts, Some((true, half))),
        Err(_) => false,
    }
}

/// Joins two nodes: whether the first one has all entries then. `None` where the keys of the right one are not above its own, or
/// where there are too many for one node.
fn joined(node: &mut Node, right: &Node, all: &[Entry]) -> Option<bool>
    requires left { IsNode (node_value node.old) }
    requires right { IsNode (node_value right.now) }
    requires kind { right.now.kind ≡ node.old.kind }
    requires level { right.now.level ≡ node.old.level }
    ensures { IsNode (node_value node.new) }
{
    let before = is_before(node, right);
    let fits = node.entries.len() + right.entries.len() <= node.kind.most_entries(node.level);
    if !before {
        return None;
    }
    if !fits {
        return None;
    }
    join(node, right);
    Some(node.entries.as_slice() == all)
}

/// Splits a node that is full: what the upper half is, and whether each half has its entries. `None` of another one.
fn halved(node: &mut Node, all: &[Entry]) -> Option<((TreeKind, u32, Mb), bool)>
    requires { IsNode (node_value node.old) }
{
    let half = all.len() / 2;
    if node.entries.len() != node.kind.most_entries(node.level) {
        return None;
    }
    let upper = split(node, Mb::new(77));
    let have = upper.entries.as_slice() == &all[half..] && node.entries.as_slice() == &all[..half];
    Some(((upper.kind, upper.level, upper.own), have))
}

/// Joins two nodes, and splits a full one again: whether the first one had all entries, and then each half had its own.
fn joined_and_halved(node: &mut Node, right: &Node, all: &[Entry]) -> bool
    requires left { IsNode (node_value node.old) }
    requires right { IsNode (node_value right.now) }
    requires kind { right.now.kind ≡ node.old.kind }
    requires level { right.now.level ≡ node.old.level }
{
    let (kind, level) = (node.kind, node.level);
    let joined = joined(node, right, all);
    let told = halved(node, all);
    let wanted = if all.len() == kind.most_entries(level) {
        Some(((kind, level, Mb::new(77)), true))
    } else {
        None
    };
    (joined, told) == (Some(true), wanted)
}

/// The same of two nodes of these numbers of entries.
fn joins(alloc: Global, kind: TreeKind, level: u32, counts: (u64, u64)) -> bool
    requires level { level ≤ most_level kind }
    requires left { counts.0 ≤ 252 }
    requires right { counts.1 ≤ 252 }
{
    let mut node = filled(kind, level, 5, counts.0);
    let right = filled(kind, level, 1_000_000, counts.1);
    match both(alloc, &node, &right) {
        Ok(all) => joined_and_halved(&mut node, &right, &all),
        Err(_) => false,
    }
}

/// Whether nodes of a kind are refilled as they should be.
fn are_refilled(alloc: Global, kind: TreeKind, level: u32) -> [bool; 4]
    requires { level ≤ most_level kind }
{
    let most = kind.most_entries(level) as u64;
    let least = most / 2;
    [
        refills(alloc, kind, level, (least - 1, least + 1)),
        refills(alloc, kind, level, (least + 1, least - 1)),
        refills(alloc, kind, level, (least - 1, most)),
        refills(alloc, kind, level, (most, least - 1)),
    ]
}

/// Whether they are joined and split as they should be.
fn are_joined(alloc: Global, kind: TreeKind, level: u32) -> [bool; 4]
    requires { level ≤ most_level kind }
{
    let most = kind.most_entries(level) as u64;
    let least = most / 2;
    [
        joins(alloc, kind, level, (least - 1, least)),
        joins(alloc, kind, level, (least, least)),
        joins(alloc, kind, level, (most, 0)),
        joins(alloc, kind, level, (0, most)),
    ]
}

/// Both of a kind and level.
fn halves_of(alloc: Global, kind: TreeKind, level: u32) -> [[bool; 4]; 2]
    requires { level ≤ most_level kind }
{
    [
        are_refilled(alloc, kind, level),
        are_joined(alloc, kind, level),
    ]
}

#[test]
fn halves_of_each_kind(rt: HostRuntime) {
    let told = [
        halves_of(rt.alloc(), TreeKind::Mapping, 0),
        halves_of(rt.alloc(), TreeKind::Mapping, 1),
        halves_of(rt.alloc(), TreeKind::Device, 1),
        halves_of(rt.alloc(), TreeKind::Device, 0),
    ];
    assert!(rt; told == [[[true; 4]; 2]; 4]);
}
