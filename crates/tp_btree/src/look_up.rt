//! What a tree has at a key.

ghost use Rattle.std.specs.Prelude.{◌≡◌, ◌<◌, ◌≤◌, ◌+◌, ◌||◌, ℕ, List, IfErr, IfOk, IsTrue, nat_lt, slice_index};
ghost use Rattle.tp_model.specs.Geometry.{sectors_of_image};
ghost use Rattle.tp_counts.specs.LookUps.{IsLookedUp};
ghost use Rattle.tp_layout.specs.Entries.{found};
ghost use Rattle.tp_refs.specs.Store.{Store};
ghost use Rattle.tp_trees.specs.Tree.{is_shared_path, pairs};
ghost use Rattle.tp_tm.specs.Tm.{counts_now};
ghost use Rattle.tp_btree.specs.Trees.{StandsBelow, Told};

use crate::step::step_at;
use tp_counts::StoreError;
use tp_disk::Disk;
use tp_layout::{Entry, TreeKind};
use tp_model::Mb;
use tp_tm::Tm;

/// An entry of a tree.
#[derive(Clone, Copy, Debug, PartialEq, Eq)]
pub struct Found {
    /// The entry as its leaf has it.
    pub entry: Entry,
    /// Whether a block on the path from the root to what the entry names, itself with it, is named more than once.
    pub is_shared: bool,
}

/// The entry that a tree of this kind has at a key, if there is one. Each node of the path is read once.
///
/// It refuses with `Fault` where a read failed, and with `Damaged` where a block of the path spells no node of the tree,
/// or an entry of it names no block of this pool.
pub fn lookup<D: Disk>(
    tm: &Tm,
    disk: &mut D,
    kind: TreeKind,
    root: Mb,
    key: u64,
) -> Result<Option<Found>, StoreError>
    requires disk { sectors_of_image tm.now.geometry ≤ (D.state disk.old).size }
    requires inside { root < tm.now.geometry.metadata_blocks }
    ensures { IsLookedUp (λ P. IsTrue (D.state disk.old).is_honest → (opens held : List ℕ) (s : Store) (k high : ℕ)
        → StandsBelow tm.now (D.state disk.old) kind opens held s k 0 high root → key < high → P k s) (D.state disk.old) (D.state disk.new) result
        (λ answer k s. Told tm.now.geometry.metadata_blocks kind (found key (pairs k s root)) (is_shared_path k s key root) answer) }
{
    look_below(tm, disk, kind, root, kind.most_level(), key, false)
}

/// Whether a block, by reference, is named more than once, or something above it is.
pub(crate) fn is_many(tm: &Tm, above: bool, reference: u64) -> bool
    requires { reference < tm.now.geometry.metadata_blocks + tm.now.geometry.data_blocks }
    ensures { result ≡ (above || nat_lt 1 (slice_index (counts_now tm.now) reference)) }
{
    above || tm.count(reference) > 1
}

/// The metadata block of this number, or `Damaged` where there is none.
pub fn block_of(tm: &Tm, number: u64) -> Result<Mb, StoreError>
    ensures inside { IfOk result (λ block. (block ≡ number) × (block < tm.now.geometry.metadata_blocks)) }
    ensures err { IfErr result (λ error. (error ≡ StoreError.Damaged) × (tm.now.geometry.metadata_blocks ≤ number)) }
{
    if number >= tm.geometry().metadata_blocks() as u64 {
        return Err(StoreError::Damaged);
    }
    Ok(Mb::new(number as u32))
}

/// The entry that the tree below a block has at a key. The block has this level at most.
fn look_below<D: Disk>(
    tm: &Tm,
    disk: &mut D,
    kind: TreeKind,
    block: Mb,
    top: u32,
    key: u64,
    above: bool,
) -> Result<Option<Found>, StoreError>
    requires disk { sectors_of_image tm.now.geometry ≤ (D.state disk.old).size }
    requires inside { block < tm.now.geometry.metadata_blocks }
    ensures { IsLookedUp (λ P. IsTrue (D.state disk.old).is_honest → (opens held : List ℕ) (s : Store) (k low high : ℕ)
        → StandsBelow tm.now (D.state disk.old) kind opens held s k low high block → k ≤ top → low ≤ key → key < high → P k s) (D.state disk.old) (D.state disk.new) result
        (λ answer k s. Told tm.now.geometry.metadata_blocks kind (found key (pairs k s block)) (above || is_shared_path k s key block) answer) }
{
    let here = step_at(tm, disk, kind, block, top, key)?;
    let is_shared = is_many(tm, above, block.number() as u64);
    let Some(entry) = here.entry else {
        if here.level > 0 {
            return Err(StoreError::Damaged);
        }
        return Ok(None);
    };
    if here.level > 0 {
        let child = block_of(tm, entry.value)?;
        return look_below(tm, disk, kind, child, here.level - 1, key, is_shared);
    }
    let reference = tm.reference(kind, 0, entry.value)?;
    if entry.key != key {
        return Ok(None);
    }
    Ok(Some(Found {
        entry,
        is_shared: is_many(tm, is_shared, reference),
    }))
}
