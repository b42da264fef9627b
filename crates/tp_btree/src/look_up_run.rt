//! What a tree has at each key of a run, by one descent for each leaf.

ghost use Rattle.std.specs.Prelude.{◌≡◌, ◌<◌, ◌≤◌, ◌^◌, ◌+◌, ℕ, List, Err, IfErr, IfOk, IsTrue, None, OnOk, length, not, slice_index_or};
ghost use Rattle.tp_model.specs.Geometry.{sectors_of_image};
ghost use Rattle.tp_counts.specs.LookUps.{IsLookedUp};
ghost use Rattle.tp_counts.specs.StoreErrors.{is_fault};
ghost use Rattle.tp_model.specs.Disk.{after_read, seen};
ghost use Rattle.tp_layout.specs.Entries.{found};
ghost use Rattle.tp_layout.specs.Node.{IsNode, NodeValue, SpellsNode, node_bytes};
ghost use Rattle.tp_image.specs.Nodes.{block_at};
ghost use Rattle.tp_refs.specs.Store.{Store, count_of, node_at};
ghost use Rattle.tp_refs.specs.Balance.{occurrences};
ghost use Rattle.tp_trees.specs.Tree.{is_shared_path, pairs};
ghost use Rattle.tp_tm.specs.Holds.{Holds, IsRankOf};
ghost use Rattle.tp_btree.specs.Runs.{IsNoLeaf, LeadsToLeaf, LeafTells};
ghost use Rattle.tp_btree.specs.Trees.{IsStep, StandsBelow, Told, base_of, last_up_to};

use crate::look_up::{Found, block_of, is_many};
use crate::step::{NodeStep, last_of, step_in};
use tp_counts::StoreError;
use tp_disk::Disk;
use tp_layout::{BlockBytes, NodeView, TreeKind};
use tp_model::Mb;
use tp_tm::{BLOCK, Tm};

/// The entries that a tree of this kind has at the keys from `first` on, one for each place of `out`. Each node of the path to
/// a leaf is read once for each leaf that the run touches.
///
/// It refuses with `Fault` where a read failed, and with `Damaged` where a block of a path spells no node of the tree,
/// or an entry of it names no block of this pool. Some places may have been told then.
pub fn lookup_run<D: Disk>(
    tm: &Tm,
    disk: &mut D,
    kind: TreeKind,
    root: Mb,
    first: u64,
    out: &mut [Option<Found>],
) -> Result<(), StoreError>
    requires disk { sectors_of_image tm.now.geometry ≤ (D.state disk.old).size }
    requires inside { root < tm.now.geometry.metadata_blocks }
    requires run { first + length out.old < 2 ^ 64 }
    ensures length { length out.new ≡ length out.old }
    ensures looked { IsLookedUp (λ P. IsTrue (D.state disk.old).is_honest → (opens held : List ℕ) (s : Store) (k high : ℕ)
        → StandsBelow tm.now (D.state disk.old) kind opens held s k 0 high root → first + length out.old ≤ high → P k s) (D.state disk.old) (D.state disk.new) result
        (λ done k s. (i : ℕ) → i < length out.old → Told tm.now.geometry.metadata_blocks kind (found (first + i) (pairs k s root)) (is_shared_path k s (first + i) root) (slice_index_or out.new i None)) }
{
    let mut done = 0;
    while done < out.len() {
        done = tell_leaf(tm, disk, kind, root, first, done, out)?;
    }
    Ok(())
}

/// What a node says of a key, and up to which key it says the same.
#[derive(Clone, Copy)]
struct Turn {
    step: NodeStep,
    until: u64,
}

/// What the node in these bytes says of a key, and of each one behind it below `until`.
fn turn_in(bytes: &BlockBytes, kind: TreeKind, key: u64, until: u64) -> Turn
    requires spelled { SpellsNode kind bytes.now }
    requires further { key < until }
    ensures further { key < result.until }
    ensures within { result.until ≤ until }
    ensures level { (n : NodeValue) → IsNode n → n.kind ≡ kind → bytes.now ≡ node_bytes n → result.step.level ≡ n.level }
    ensures entry { (n : NodeValue) → IsNode n → n.kind ≡ kind → bytes.now ≡ node_bytes n
        → (next : ℕ) → key ≤ next → next < result.until → result.step.entry ≡ last_up_to next n.entries }
{
    let node = NodeView::known(bytes, kind);
    let step = NodeStep {
        level: node.level(),
        entry: last_of(&node, key),
    };
    let rank = node.rank(key);
    if rank == node.len() {
        return Turn { step, until };
    }
    let behind = node.key(rank);
    if behind < until {
        return Turn {
            step,
            until: behind,
        };
    }
    Turn { step, until }
}

/// Reads a node of this kind and at most this level into `bytes`, and takes the turn at a key.
///
/// It refuses with `Fault` where the read failed, and with `Damaged` where the block spells no such node.
fn turn_at<D: Disk>(
    tm: &Tm,
    disk: &mut D,
    kind: TreeKind,
    block: Mb,
    top: u32,
    key: u64,
    until: u64,
    bytes: &mut BlockBytes,
) -> Result<Turn, StoreError>
    requires disk { sectors_of_image tm.now.geometry ≤ (D.state disk.old).size }
    requires inside { block < tm.now.geometry.metadata_blocks }
    requires further { key < until }
    ensures step { IfOk result (λ turn. IsTrue (D.state disk.old).is_honest → (opens held : List ℕ) (s : Store) → Holds tm.now (D.state disk.old) opens held s
        → 0 < count_of s block → occurrences block opens ≡ 0 → IsRankOf kind (node_at s block).rank
        → (next : ℕ) → key ≤ next → next < turn.until → IsStep tm.now.geometry.metadata_blocks kind s next block turn.step) }
    ensures further { IfOk result (λ turn. (key < turn.until) × (turn.until ≤ until)) }
    ensures top { IfOk result (λ turn. turn.step.level ≤ top) }
    ensures spelled { OnOk result (SpellsNode kind bytes.new) }
    ensures bytes { OnOk result (IsTrue (D.state disk.old).is_honest → bytes.new ≡ block_at (seen (D.state disk.old).cells) block) }
    ensures damaged { result ≡ Err StoreError.Damaged → IsTrue (D.state disk.old).is_honest → (opens held : List ℕ) (s : Store) → Holds tm.now (D.state disk.old) opens held s
        → 0 < count_of s block → occurrences block opens ≡ 0 → IsRankOf kind (node_at s block).rank → (node_at s block).rank ≤ base_of kind + top → ⊥ }
    ensures state { D.state disk.new ≡ after_read (not (is_fault result)) (D.state disk.old) }
{
    tm.read(disk, block, kind, bytes)?;
    let turn = turn_in(bytes, kind, key, until);
    if turn.step.level > top {
        return Err(StoreError::Damaged);
    }
    Ok(turn)
}

/// The leaf that keys lead to.
#[derive(Clone, Copy)]
struct Leaf {
    /// The keys below this one lead to it, from the key that was looked up on.
    until: u64,
    /// Whether a block on the path to it, itself with it, is named more than once.
    is_shared: bool,
}

/// Reads the leaf that a key leads to from a block into `bytes`. The first block has this level at most.
fn leaf_below<D: Disk>(
    tm: &Tm,
    disk: &mut D,
    kind: TreeKind,
    block: Mb,
    top: u32,
    key: u64,
    until: u64,
    above: bool,
    bytes: &mut BlockBytes,
) -> Result<Leaf, StoreError>
    requires disk { sectors_of_image tm.now.geometry ≤ (D.state disk.old).size }
    requires inside { block < tm.now.geometry.metadata_blocks }
    requires further { key < until }
    ensures leads { IfOk result (λ leaf. IsTrue (D.state disk.old).is_honest → (opens held : List ℕ) (s : Store) (k low high : ℕ)
        → StandsBelow tm.now (D.state disk.old) kind opens held s k low high block → k ≤ top
        → (next : ℕ) → key ≤ next → next < leaf.until → low ≤ next → next < high
        → LeadsToLeaf tm.now (D.state disk.old) kind opens held s k next block above bytes.new leaf.is_shared) }
    ensures further { IfOk result (λ leaf. (key < leaf.until) × (leaf.until ≤ until)) }
    ensures spelled { OnOk result (SpellsNode kind bytes.new) }
    ensures damaged { result ≡ Err StoreError.Damaged → IsTrue (D.state disk.old).is_honest → (opens held : List ℕ) (s : Store) (k low high : ℕ)
        → StandsBelow tm.now (D.state disk.old) kind opens held s k low high block → k ≤ top → low ≤ key → key < high → ⊥ }
    ensures state { D.state disk.new ≡ after_read (not (is_fault result)) (D.state disk.old) }
{
    let turn = turn_at(tm, disk, kind, block, top, key, until, bytes)?;
    let is_shared = is_many(tm, above, block.number() as u64);
    if turn.step.level == 0 {
        return Ok(Leaf { until, is_shared });
    }
    let Some(entry) = turn.step.entry else {
        return Err(StoreError::Damaged);
    };
    let child = block_of(tm, entry.value)?;
    leaf_below(
        tm,
        disk,
        kind,
        child,
        turn.step.level - 1,
        key,
        turn.until,
        is_shared,
        bytes,
    )
}

/// The entry that a leaf has at a key, where the path to it is shared or not.
fn tell(
    tm: &Tm,
    kind: TreeKind,
    bytes: &BlockBytes,
    is_shared: bool,
    key: u64,
) -> Result<Option<Found>, StoreError>
    requires { SpellsNode kind bytes.now }
    ensures told { IfOk result (λ answer. LeafTells tm.now kind key bytes.now is_shared answer) }
    ensures err { IfErr result (λ error. (error ≡ StoreError.Damaged) × IsNoLeaf tm.now kind key bytes.now is_shared) }
{
    let step = step_in(bytes, kind, key);
    let Some(entry) = step.entry else {
        return Ok(None);
    };
    let reference = tm.reference(kind, 0, entry.value)?;
    if entry.key != key {
        return Ok(None);
    }
    Ok(Some(Found {
        entry,
        is_shared: is_many(tm, is_shared, reference),
    }))
}

/// Tells what a leaf has at the keys of a run, from this place of `out` on to this one.
fn tell_keys(
    tm: &Tm,
    kind: TreeKind,
    bytes: &BlockBytes,
    is_shared: bool,
    first: u64,
    from: usize,
    to: usize,
    out: &mut [Option<Found>],
) -> Result<(), StoreError>
    requires spelled { SpellsNode kind bytes.now }
    requires within { to ≤ length out.old }
    requires run { first + length out.old < 2 ^ 64 }
    ensures length { length out.new ≡ length out.old }
    ensures told { OnOk result ((i : ℕ) → from ≤ i → i < to → LeafTells tm.now kind (first + i) bytes.now is_shared (slice_index_or out.new i None)) }
    ensures other { OnOk result ((i : ℕ) → i < from → slice_index_or out.new i None ≡ slice_index_or out.old i None) }
    ensures err { IfErr result (λ error. (error ≡ StoreError.Damaged) × ((i : ℕ) × (from ≤ i) × (i < to) × IsNoLeaf tm.now kind (first + i) bytes.now is_shared)) }
{
    for i in from..to {
        out[i] = tell(tm, kind, bytes, is_shared, first + i as u64)?;
    }
    Ok(())
}

/// Tells what one leaf has at the keys of a run, from this place of `out` on. It gives the place behind them.
fn tell_leaf<D: Disk>(
    tm: &Tm,
    disk: &mut D,
    kind: TreeKind,
    root: Mb,
    first: u64,
    from: usize,
    out: &mut [Option<Found>],
) -> Result<usize, StoreError>
    requires disk { sectors_of_image tm.now.geometry ≤ (D.state disk.old).size }
    requires inside { root < tm.now.geometry.metadata_blocks }
    requires within { from < length out.old }
    requires run { first + length out.old < 2 ^ 64 }
    ensures length { length out.new ≡ length out.old }
    ensures further { IfOk result (λ to. (from < to) × (to ≤ length out.old)) }
    ensures looked { IsLookedUp (λ P. IsTrue (D.state disk.old).is_honest → (opens held : List ℕ) (s : Store) (k high : ℕ)
        → StandsBelow tm.now (D.state disk.old) kind opens held s k 0 high root → first + length out.old ≤ high → P k s) (D.state disk.old) (D.state disk.new) result
        (λ to k s. (i : ℕ) → from ≤ i → i < to → Told tm.now.geometry.metadata_blocks kind (found (first + i) (pairs k s root)) (is_shared_path k s (first + i) root) (slice_index_or out.new i None)) }
    ensures other { OnOk result ((i : ℕ) → i < from → slice_index_or out.new i None ≡ slice_index_or out.old i None) }
{
    let mut bytes = [0; BLOCK];
    let key = first + from as u64;
    let top = kind.most_level();
    let leaf = leaf_below(tm, disk, kind, root, top, key, u64::MAX, false, &mut bytes)?;
    let behind = first + out.len() as u64;
    let to = (behind.min(leaf.until) - first) as usize;
    tell_keys(tm, kind, &bytes, leaf.is_shared, first, from, to, out)?;
    Ok(to)
}
