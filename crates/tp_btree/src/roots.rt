//! Roots of trees: a tree without entries, and references to roots that are passed on.

ghost use Rattle.std.specs.Prelude.{◌≡◌, ◌+◌, ◌<◌, ◌≤◌, ◌∷◌, ◌^◌, ◌⊎◌, ℕ, List, Err, IfErr, IfOk, IsTrue, OnErr, OnOk, is_err, not, set, slice_index};
ghost use Rattle.tp_model.specs.Geometry.{sectors_of_image};
ghost use Rattle.tp_counts.specs.StoreErrors.{is_fault};
ghost use Rattle.tp_model.specs.Disk.{DiskState, FaultHasCause, IsSameDisk, after_read};
ghost use Rattle.tp_refs.specs.Store.{Store, count_of, with_count};
ghost use Rattle.tp_refs.specs.Balance.{occurrences};
ghost use Rattle.tp_tm.specs.Tm.{OnlyFewer, free_metadata, used_metadata};
ghost use Rattle.tp_tm.specs.Holds.{Holds};
ghost use Rattle.tp_tm.specs.Keeps.{LeavesKept};
ghost use Rattle.tp_btree.specs.Trees.{StandsBelow};
ghost use Rattle.tp_btree.specs.Roots.{Begun, Passed};

use tp_counts::StoreError;
use tp_disk::{Disk, Fault};
use tp_layout::TreeKind;
use tp_model::Mb;
use tp_tm::Tm;

/// A tree of this kind without entries, in a fresh block. Its root is held.
///
/// After a `Fault` the block stays open, and may hold anything.
pub fn empty<D: Disk>(tm: &mut Tm, disk: &mut D, kind: TreeKind) -> Result<Mb, Fault>
    requires disk { sectors_of_image tm.old.geometry ≤ (D.state disk.old).size }
    requires room { 0 < free_metadata tm.old }
    ensures inside { IfOk result (λ root. root < tm.old.geometry.metadata_blocks) }
    ensures begun { IfOk result (λ root. (opens held : List ℕ) (s : Store) → Holds tm.old (D.state disk.old) opens held s → Begun s tm.new (D.state disk.new) kind opens held root) }
    ensures open { OnErr result ((opens held : List ℕ) (s : Store) → Holds tm.old (D.state disk.old) opens held s
        → (b : ℕ) × Holds tm.new (D.state disk.new) (b ∷ opens) held (with_count s b 1)) }
    ensures room { free_metadata tm.old ≤ free_metadata tm.new + 1 }
    ensures used { used_metadata tm.new ≤ used_metadata tm.old + 1 }
    ensures kept { (tm.new.geometry ≡ tm.old.geometry) × (tm.new.metadata_kept ≡ tm.old.metadata_kept) × (tm.new.data_kept ≡ tm.old.data_kept) × (tm.new.held_root ≡ tm.old.held_root) }
    ensures any_moment { LeavesKept tm.old.metadata_kept (D.state disk.old) (D.state disk.new) }
    ensures same_disk { IsSameDisk (D.state disk.old) (D.state disk.new) }
    ensures cause { FaultHasCause (is_err result) (D.state disk.old) (D.state disk.new) }
    ensures flushes { (D.state disk.new).flushes ≡ (D.state disk.old).flushes }
{
    let root = tm.fresh();
    let node = tp_nodes::empty(kind, 0, root);
    match tm.write(disk, &node) {
        Ok(()) => Ok(root),
        Err(fault) => Err(fault),
    }
}

/// One reference more to the root of a tree that is held or named by a node, as a snapshot takes it: the tree then stands
/// under both, and a change through one of them is not seen through the other.
///
/// `Damaged` exactly where its count is the greatest `u32`, which no count of references is.
pub fn share(tm: &mut Tm, root: Mb) -> Result<(), StoreError>
    requires inside { root < tm.old.geometry.metadata_blocks }
    ensures shared { OnOk result ((disk : DiskState) (opens held : List ℕ) (s : Store) → Holds tm.old disk opens (root ∷ held) s
        → Passed s tm.new disk opens (root ∷ root ∷ held)) }
    ensures named { OnOk result ((disk : DiskState) (opens held : List ℕ) (s : Store) → Holds tm.old disk opens held s → 0 < count_of s root → occurrences root opens ≡ 0
        → Passed s tm.new disk opens (root ∷ held)) }
    ensures more { OnOk result (tm.new ≡ record tm.old { metadata_now = set tm.old.metadata_now root (slice_index tm.old.metadata_now root + 1) }) }
    ensures err { IfErr result (λ error. (error ≡ StoreError.Damaged) × (tm.new ≡ tm.old) × (slice_index tm.old.metadata_now root + 1 ≡ 2 ^ 32)) }
{
    tm.share(root)
}

/// Gives up a reference to the root of a tree of this kind. What nothing else names is given back. It takes no block.
///
/// It refuses with `Fault` where a read failed, and with `Damaged` where a block below spells no node of its place, or a
/// count below is not that of the references. After an `Err` some counts may have fallen.
pub fn drop_tree<D: Disk>(
    tm: &mut Tm,
    disk: &mut D,
    kind: TreeKind,
    root: Mb,
) -> Result<(), StoreError>
    requires disk { sectors_of_image tm.old.geometry ≤ (D.state disk.old).size }
    requires inside { root < tm.old.geometry.metadata_blocks }
    ensures dropped { OnOk result (IsTrue (D.state disk.old).is_honest → (opens held : List ℕ) (s : Store) (k high : ℕ)
        → StandsBelow tm.old (D.state disk.old) kind opens (root ∷ held) s k 0 high root → Passed s tm.new (D.state disk.new) opens held) }
    ensures damaged { result ≡ Err StoreError.Damaged → IsTrue (D.state disk.old).is_honest → (opens held : List ℕ) (s : Store) (k high : ℕ)
        → StandsBelow tm.old (D.state disk.old) kind opens (root ∷ held) s k 0 high root → ⊥ }
    ensures fewer { OnlyFewer tm.old tm.new }
    ensures room { free_metadata tm.old ≤ free_metadata tm.new }
    ensures used { used_metadata tm.new ≤ used_metadata tm.old }
    ensures state { D.state disk.new ≡ after_read (not (is_fault result)) (D.state disk.old) }
{
    tm.release(disk, root, kind)
}
