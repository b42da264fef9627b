//! An entry that is added to a whole tree.

ghost use Rattle.std.specs.Prelude.{◌≡◌, ◌+◌, ◌*◌, ◌<◌, ◌≤◌, ◌∷◌, ◌⊎◌, ℕ, List, Err, IfErr, IfOk, IsTrue};
ghost use Rattle.tp_model.specs.Geometry.{sectors_of_image};
ghost use Rattle.tp_counts.specs.StoreErrors.{is_fault};
ghost use Rattle.tp_layout.specs.Node.{FitsEntry, IsNode, is_long, most_level};
ghost use Rattle.tp_layout.specs.Value.{node_value};
ghost use Rattle.tp_refs.specs.Store.{Store, first_named, moved_by, node_at};
ghost use Rattle.tp_trees.specs.Growth.{Two, branches};
ghost use Rattle.tp_tm.specs.Tm.{free_metadata};
ghost use Rattle.tp_tm.specs.Holds.{Holds};
ghost use Rattle.tp_btree.specs.Trees.{base_of};
ghost use Rattle.tp_btree.specs.Inserts.{Crowned, Insertable, InsertedAt, Ran};

use crate::growth::add;
use crate::split::{Parts, write};
use crate::step::step_at;
use tp_counts::StoreError;
use tp_disk::Disk;
use tp_layout::{Entry, Node, TreeKind};
use tp_model::Mb;
use tp_nodes::{empty, put};
use tp_tm::Tm;

/// A node of this level with two children, for the block of number `own`.
fn node_over(kind: TreeKind, level: u32, own: Mb, lower: u64, middle: u64, upper: u64) -> Node
    requires level { level ≤ most_level kind }
    requires inner { 0 < level }
    requires middle { 0 < middle }
    ensures value { node_value result ≡ record { kind = kind; level = level; own = own; entries = branches 0 (Two lower middle upper) } }
    ensures good { IsNode (node_value result) }
{
    let mut node = empty(kind, level, own);
    put(
        &mut node,
        Entry {
            key: 0,
            value: lower,
            mapped: 0,
            size: 0,
        },
    );
    put(
        &mut node,
        Entry {
            key: middle,
            value: upper,
            mapped: 0,
            size: 0,
        },
    );
    node
}

/// Writes a root above two nodes of one level to a fresh block.
fn crown<D: Disk>(
    tm: &mut Tm,
    disk: &mut D,
    kind: TreeKind,
    lower: Mb,
    middle: u64,
    upper: u64,
) -> Result<Mb, StoreError>
    requires disk { sectors_of_image tm.old.geometry ≤ (D.state disk.old).size }
    requires inside { lower < tm.old.geometry.metadata_blocks }
    requires room { 0 < free_metadata tm.old }
    ensures inside { IfOk result (λ top. top < tm.old.geometry.metadata_blocks) }
    ensures crowned { IfOk result (λ top. IsTrue (D.state disk.old).is_honest → (opens held : List ℕ) (s : Store) (k : ℕ) → Holds tm.old (D.state disk.old) opens (lower ∷ upper ∷ held) s
        → (node_at s lower).rank ≡ base_of kind + k → k ≤ most_level kind → 0 < middle → Crowned s tm.new (D.state disk.new) kind opens held k lower middle upper top) }
    ensures damaged { result ≡ Err StoreError.Damaged → IsTrue (D.state disk.old).is_honest → (opens held : List ℕ) (s : Store) (k : ℕ) → Holds tm.old (D.state disk.old) opens (lower ∷ upper ∷ held) s
        → (node_at s lower).rank ≡ base_of kind + k → k ≤ most_level kind → 0 < middle → k ≡ most_level kind }
    ensures ran { Ran 1 (is_fault result) tm.old tm.new (D.state disk.old) (D.state disk.new) }
{
    let below = step_at(tm, disk, kind, lower, kind.most_level(), 0)?;
    if below.level == kind.most_level() {
        return Err(StoreError::Damaged);
    }
    if middle == 0 {
        return Err(StoreError::Damaged);
    }
    let own = tm.fresh();
    let node = node_over(
        kind,
        below.level + 1,
        own,
        lower.number() as u64,
        middle,
        upper,
    );
    write(tm, disk, &node)?;
    Ok(own)
}

/// Adds an entry with a new key to a tree of this kind: the reference to the root is traded for one to the root that the
/// tree has then, and the reference to what the entry names for the entry. A node that something else names too, or the
/// last commit, is changed in a copy.
///
/// It takes two fresh blocks a level at most, and one. It refuses with `Fault` where the disk failed, and with `Damaged`
/// where a block spells no node of the tree, a count is not that of the references, or the tree has the key; after an `Err`
/// blocks may be left open.
pub fn insert<D: Disk>(
    tm: &mut Tm,
    disk: &mut D,
    kind: TreeKind,
    root: Mb,
    entry: Entry,
) -> Result<Mb, StoreError>
    requires disk { sectors_of_image tm.old.geometry ≤ (D.state disk.old).size }
    requires inside { root < tm.old.geometry.metadata_blocks }
    requires fits { FitsEntry (is_long kind 0) entry }
    requires room { 2 * (most_level kind + 1) + 1 ≤ free_metadata tm.old }
    ensures inside { IfOk result (λ top. top < tm.old.geometry.metadata_blocks) }
    ensures inserted { IfOk result (λ top. IsTrue (D.state disk.old).is_honest → (opens held : List ℕ) (s : Store) (k high : ℕ)
        → Insertable tm.old (D.state disk.old) kind opens held s k high root (moved_by (first_named tm.old.geometry.metadata_blocks kind 0) entry)
        → InsertedAt s tm.new (D.state disk.new) kind opens held k high root (moved_by (first_named tm.old.geometry.metadata_blocks kind 0) entry) top) }
    ensures damaged { result ≡ Err StoreError.Damaged → IsTrue (D.state disk.old).is_honest → (opens held : List ℕ) (s : Store) (k high : ℕ)
        → Insertable tm.old (D.state disk.old) kind opens held s k high root (moved_by (first_named tm.old.geometry.metadata_blocks kind 0) entry) → ⊥ }
    ensures room { IsTrue (D.state disk.old).is_honest → (opens held : List ℕ) (s : Store) (k high : ℕ)
        → Insertable tm.old (D.state disk.old) kind opens held s k high root (moved_by (first_named tm.old.geometry.metadata_blocks kind 0) entry)
        → free_metadata tm.old ≤ free_metadata tm.new + (2 * (k + 1) + 1) }
    ensures ran { Ran (2 * (most_level kind + 1) + 1) (is_fault result) tm.old tm.new (D.state disk.old) (D.state disk.new) }
{
    match add(tm, disk, kind, root, kind.most_level(), entry)? {
        Parts::Whole(block) => Ok(Mb::new(block as u32)),
        Parts::Halves(lower, middle, upper) => {
            crown(tm, disk, kind, Mb::new(lower as u32), middle, upper)
        }
    }
}
