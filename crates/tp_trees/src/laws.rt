//! Laws of the definitions, each the contract of a function that does nothing.

ghost use Rattle.std.specs.Prelude.{◌≡◌, ◌≢◌, ◌+◌, ◌*◌, ◌/◌, ◌^◌, ◌<◌, ◌≤◌, ℕ, List, None, Some, length, suc};
ghost use Rattle.tp_layout.specs.declared.entry.Entry.{Entry};
ghost use Rattle.tp_layout.specs.Entries.{Ascend, found, with_entry, without_key};
ghost use Rattle.tp_refs.specs.Store.{Store};
ghost use Rattle.tp_refs.specs.Balance.{Frame, occurrences};
ghost use Rattle.tp_trees.specs.Tree.{IsTree, IsWhole, pairs};
ghost use Rattle.tp_trees.specs.Paths.{EntriesByPaths};
ghost use Rattle.tp_trees.specs.Sizes.{nodes_of};

/// A tree has an entry at a key exactly where a path from its root, whose intervals all hold the key, ends in that entry
/// of a leaf.
pub fn entries_are_by_paths()
    ensures { EntriesByPaths }
{}

/// Where what stands under the held references is as it was, so are the trees below them, and their entries: a root that
/// is shared keeps the tree while another one is changed.
pub fn framed_trees_stay()
    ensures tree { (base k : ℕ) (s t : Store) (low high b : ℕ) (held : List ℕ) → Frame s t held → 0 < occurrences b held → IsTree base k s low high b
        → IsTree base k t low high b × (pairs k t b ≡ pairs k s b) }
    ensures whole { (base k : ℕ) (s t : Store) (high b : ℕ) (held : List ℕ) → Frame s t held → 0 < occurrences b held → IsWhole base k s high b
        → IsWhole base k t high b × (pairs k t b ≡ pairs k s b) }
{}

/// How many entries a whole tree has at least by its height, and how high it is at most. Leaves of a mapping tree have
/// rank 1, leaves of the device tree rank 5.
pub fn whole_trees_are_low()
    ensures mapping_many { (k : ℕ) (s : Store) (high b : ℕ) → k ≤ 3 → IsWhole 1 (suc k) s high b → 2 * 126 ^ suc k ≤ length (pairs (suc k) s b) }
    ensures device_many { (k : ℕ) (s : Store) (high b : ℕ) → IsWhole 5 (suc k) s high b → 2 * (63 * 126 ^ k) ≤ length (pairs (suc k) s b) }
    ensures few { (base k : ℕ) (s : Store) (low high b : ℕ) → IsTree base k s low high b → low + length (pairs k s b) ≤ high }
    ensures mapping_low { (k : ℕ) (s : Store) (high b : ℕ) → IsWhole 1 k s high b → high ≤ 2 ^ 24 → k ≤ 3 }
    ensures device_low { (k : ℕ) (s : Store) (high b : ℕ) → IsWhole 5 k s high b → length (pairs k s b) ≤ 65536 → k ≤ 2 }
{}

/// What look-ups find once an entry was put into a tree's entries or taken out: at its key that entry or none, and at each
/// other key what was there.
pub fn changes_are_at_the_key()
    ensures with_same { (x : Entry) (es : List Entry) → found x.key (with_entry x es) ≡ Some x }
    ensures with_other { (x : Entry) (key : ℕ) (es : List Entry) → key ≢ x.key → found key (with_entry x es) ≡ found key es }
    ensures without_same { (low high key : ℕ) (es : List Entry) → Ascend low high es → found key (without_key key es) ≡ None }
    ensures without_other { (key other : ℕ) (es : List Entry) → other ≢ key → found other (without_key key es) ≡ found other es }
    ensures ascend { (base k : ℕ) (s : Store) (low high b : ℕ) → IsTree base k s low high b → Ascend low high (pairs k s b) }
{}

/// How many nodes a whole tree has at most by its entries. Each node but the root has its least number of entries, so they are
/// about half as many.
pub fn whole_trees_have_few_nodes()
    ensures mapping { (k : ℕ) (s : Store) (high b : ℕ) → IsWhole 1 k s high b → high ≤ 2 ^ 24 → length (nodes_of k s b) ≤ 1 + length (pairs k s b) / 63 }
    ensures device { (k : ℕ) (s : Store) (high b : ℕ) → IsWhole 5 k s high b → length (nodes_of k s b) ≤ 1 + length (pairs k s b) / 31 }
{}
