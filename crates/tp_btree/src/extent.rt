//! How far a tree goes: how many entries it has, and the last of them.

ghost use Rattle.std.specs.Prelude.{◌≡◌, ◌<◌, ◌≤◌, ◌^◌, ◌+◌, ℕ, List, Err, IfErr, IfOk, IsTrue, length, not};
ghost use Rattle.std.specs.Option.{option_map};
ghost use Rattle.tp_model.specs.Geometry.{sectors_of_image};
ghost use Rattle.tp_counts.specs.LookUps.{IsLookedUp};
ghost use Rattle.tp_counts.specs.StoreErrors.{is_fault};
ghost use Rattle.tp_model.specs.Disk.{after_read};
ghost use Rattle.tp_refs.specs.Store.{Store, first_named, moved_by};
ghost use Rattle.tp_trees.specs.Tree.{pairs};
ghost use Rattle.tp_btree.specs.Trees.{StandsBelow};
ghost use Rattle.tp_btree.specs.Walks.{last_entry};

use crate::look_up::block_of;
use crate::step::step_at;
use tp_counts::StoreError;
use tp_disk::Disk;
use tp_layout::{Entry, NodeView, TreeKind};
use tp_model::Mb;
use tp_tm::{BLOCK, Tm};

/// More entries than this are in no tree: virtual blocks and ids have 24 bits.
const MOST: u64 = 16_777_216;

/// The entry of a tree of this kind that has the greatest key, as its leaf has it, if there is one. One node of each level
/// is read.
///
/// It refuses with `Fault` where a read failed, and with `Damaged` where a block of the path spells no node of the tree,
/// or an entry of it names no block of this pool.
pub fn last<D: Disk>(
    tm: &Tm,
    disk: &mut D,
    kind: TreeKind,
    root: Mb,
) -> Result<Option<Entry>, StoreError>
    requires disk { sectors_of_image tm.now.geometry ≤ (D.state disk.old).size }
    requires inside { root < tm.now.geometry.metadata_blocks }
    ensures { IsLookedUp (λ P. IsTrue (D.state disk.old).is_honest → (opens held : List ℕ) (s : Store) (k high : ℕ)
        → StandsBelow tm.now (D.state disk.old) kind opens held s k 0 high root → 0 < high → high ≤ 2 ^ 64 → P k s) (D.state disk.old) (D.state disk.new) result
        (λ answer k s. option_map (moved_by (first_named tm.now.geometry.metadata_blocks kind 0)) answer ≡ last_entry (pairs k s root)) }
{
    last_below(tm, disk, kind, root, kind.most_level())
}

/// The last entry below a block of this level at most.
fn last_below<D: Disk>(
    tm: &Tm,
    disk: &mut D,
    kind: TreeKind,
    block: Mb,
    top: u32,
) -> Result<Option<Entry>, StoreError>
    requires disk { sectors_of_image tm.now.geometry ≤ (D.state disk.old).size }
    requires inside { block < tm.now.geometry.metadata_blocks }
    ensures { IsLookedUp (λ P. IsTrue (D.state disk.old).is_honest → (opens held : List ℕ) (s : Store) (k low high : ℕ)
        → StandsBelow tm.now (D.state disk.old) kind opens held s k low high block → k ≤ top → low < high → high ≤ 2 ^ 64 → P k s) (D.state disk.old) (D.state disk.new) result
        (λ answer k s. option_map (moved_by (first_named tm.now.geometry.metadata_blocks kind 0)) answer ≡ last_entry (pairs k s block)) }
{
    let here = step_at(tm, disk, kind, block, top, u64::MAX)?;
    if here.level == 0 {
        return Ok(here.entry);
    }
    let Some(entry) = here.entry else {
        return Err(StoreError::Damaged);
    };
    let child = block_of(tm, entry.value)?;
    last_below(tm, disk, kind, child, here.level - 1)
}

/// How many entries a tree of this kind has. Each of its nodes is read once.
///
/// It refuses with `Fault` where a read failed, and with `Damaged` where a block spells no node of the tree, an entry of an
/// inner node names no block of this pool, or there are more than 2^24.
pub fn count<D: Disk>(tm: &Tm, disk: &mut D, kind: TreeKind, root: Mb) -> Result<u64, StoreError>
    requires disk { sectors_of_image tm.now.geometry ≤ (D.state disk.old).size }
    requires inside { root < tm.now.geometry.metadata_blocks }
    ensures told { IfOk result (λ answer. IsTrue (D.state disk.old).is_honest → (opens held : List ℕ) (s : Store) (k high : ℕ)
        → StandsBelow tm.now (D.state disk.old) kind opens held s k 0 high root → answer ≡ length (pairs k s root)) }
    ensures few { IfOk result (λ answer. answer ≤ 2 ^ 24) }
    ensures damaged { result ≡ Err StoreError.Damaged → IsTrue (D.state disk.old).is_honest → (opens held : List ℕ) (s : Store) (k high : ℕ)
        → StandsBelow tm.now (D.state disk.old) kind opens held s k 0 high root → length (pairs k s root) ≤ 2 ^ 24 → ⊥ }
    ensures state { D.state disk.new ≡ after_read (not (is_fault result)) (D.state disk.old) }
{
    count_below(tm, disk, kind, root, kind.most_level())
}

/// The sum of two numbers of entries, or `Damaged` where it is greater than that of any tree.
fn sum_of(one: u64, other: u64) -> Result<u64, StoreError>
    requires one { one ≤ 2 ^ 24 }
    requires other { other ≤ 2 ^ 24 }
    ensures sum { IfOk result (λ sum. (sum ≡ one + other) × (sum ≤ 2 ^ 24)) }
    ensures err { IfErr result (λ error. (error ≡ StoreError.Damaged) × (2 ^ 24 < one + other)) }
{
    if one + other > MOST {
        return Err(StoreError::Damaged);
    }
    Ok(one + other)
}

/// How many entries there are below a block of this level at most.
fn count_below<D: Disk>(
    tm: &Tm,
    disk: &mut D,
    kind: TreeKind,
    block: Mb,
    top: u32,
) -> Result<u64, StoreError>
    requires disk { sectors_of_image tm.now.geometry ≤ (D.state disk.old).size }
    requires inside { block < tm.now.geometry.metadata_blocks }
    ensures told { IfOk result (λ answer. IsTrue (D.state disk.old).is_honest → (opens held : List ℕ) (s : Store) (k low high : ℕ)
        → StandsBelow tm.now (D.state disk.old) kind opens held s k low high block → k ≤ top → answer ≡ length (pairs k s block)) }
    ensures few { IfOk result (λ answer. answer ≤ 2 ^ 24) }
    ensures damaged { result ≡ Err StoreError.Damaged → IsTrue (D.state disk.old).is_honest → (opens held : List ℕ) (s : Store) (k low high : ℕ)
        → StandsBelow tm.now (D.state disk.old) kind opens held s k low high block → k ≤ top → length (pairs k s block) ≤ 2 ^ 24 → ⊥ }
    ensures state { D.state disk.new ≡ after_read (not (is_fault result)) (D.state disk.old) }
{
    let mut bytes = [0; BLOCK];
    tm.read(disk, block, kind, &mut bytes)?;
    let node = NodeView::known(&bytes, kind);
    let level = node.level();
    if level > top {
        return Err(StoreError::Damaged);
    }
    if level == 0 {
        return Ok(node.len() as u64);
    }
    let mut count = 0;
    for i in 0..node.len() {
        let child = block_of(tm, node.entry(i).value)?;
        let below = count_below(tm, disk, kind, child, level - 1)?;
        count = sum_of(count, below)?;
    }
    Ok(count)
}
