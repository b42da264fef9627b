//! Laws of the definitions, each the contract of a function that does nothing.

ghost use Rattle.std.specs.Prelude.{◌≡◌, ◌+◌, ◌<◌, ◌≤◌, ◌++◌, ◌∷◌, ℕ, List, length};
ghost use Rattle.tp_refs.specs.Store.{MayName, Node, Store, children, count_of, kept_of, node_at, with_count, with_node};
ghost use Rattle.tp_refs.specs.Balance.{Balanced, Frame, KeptUnwritten, LowerStay, SameNodes, occurrences};
ghost use Rattle.tp_refs.specs.Lower.{LowerLast};
ghost use Rattle.tp_refs.specs.Reach.{CountsAreTrue, Keeps, LiveIsReached, StopKeeps};

/// Where the counts of a store balance and no block is open, the blocks with a count are those that paths of references
/// lead to from the held ones, and each count is the number of references from there.
pub fn live_blocks_are_reached()
    ensures live { LiveIsReached }
    ensures counts { CountsAreTrue }
{}

/// A stop at any moment keeps what stood under the roots of the last commit, as long as each step leaves the nodes that
/// it names unwritten.
pub fn stops_keep_the_commit()
    ensures image { StopKeeps }
    ensures step { (commit s t : Store) → Keeps commit s → KeptUnwritten s t → Keeps commit t }
{}

/// What each change of a single count or node does to the balance.
pub fn single_changes_keep_the_balance()
    // A live block that is not open gets one more reference, which is held.
    ensures shared { (s : Store) (opens held : List ℕ) (b : ℕ) → Balanced s opens held → 0 < count_of s b → occurrences b opens ≡ 0
        → Balanced (with_count s b (count_of s b + 1)) opens (b ∷ held) }

    // One of several references goes, and the last one, whose node's references pass to the holder.
    ensures let_go { (s : Store) (opens held : List ℕ) (b n : ℕ) → Balanced s opens (b ∷ held) → count_of s b ≡ n + 1 → 0 < n
        → Balanced (with_count s b n) opens held }
    ensures last_gone { (s : Store) (opens held : List ℕ) (b : ℕ) → Balanced s opens (b ∷ held) → count_of s b ≡ 1
        → Balanced (with_count s b 0) opens (children (node_at s b) ++ held) }

    // A block is opened by its only reference, or taken where neither the present counts nor the kept ones have it.
    ensures opened { (s : Store) (opens held : List ℕ) (b : ℕ) → Balanced s opens (b ∷ held) → count_of s b ≡ 1 → kept_of s b ≡ 0
        → Balanced s (b ∷ opens) (children (node_at s b) ++ held) }
    ensures taken { (s : Store) (opens held : List ℕ) (b : ℕ) → Balanced s opens held → count_of s b ≡ 0 → kept_of s b ≡ 0
        → b < length s.counts → Balanced (with_count s b 1) (b ∷ opens) held }

    // An open block is written, and closed: what its node names is no longer held.
    ensures closed { (s : Store) (opens held : List ℕ) (b : ℕ) (n : Node) → Balanced s (b ∷ opens) (children n ++ held)
        → b < length s.nodes → length n.entries ≤ 252
        → ((c : ℕ) → 0 < occurrences c (children n) → MayName n.rank (node_at s c).rank) → Balanced (with_node s b n) opens (b ∷ held) }
    ensures frame { (s : Store) (opens held : List ℕ) (b : ℕ) (n : Node) → Balanced s (b ∷ opens) held → Frame s (with_node s b n) held }
    ensures unwritten { (s : Store) (b : ℕ) (n : Node) → kept_of s b ≡ 0 → KeptUnwritten s (with_node s b n) }

    // An open block is given up unwritten.
    ensures abandoned { (s : Store) (opens held : List ℕ) (b : ℕ) → Balanced s (b ∷ opens) held → Balanced (with_count s b 0) opens held }
{}

/// What stays below a rank. That follows from the balances before and after a step, and no clause on single counts is needed: a live
/// block is held, or named on a path from a held one.
pub fn lower_nodes_stay()
    ensures together { (rank : ℕ) (opens between later : List ℕ) (s t u : Store) → LowerLast rank opens between s t → LowerLast rank between later t u → LowerLast rank opens later s u }
    ensures stay { (rank : ℕ) (opens : List ℕ) (s t : Store) → LowerLast rank opens opens s t → LowerStay rank opens s t }

    // A reference to a node of this rank or a greater one becomes an open block, or what the node names is held in its place.
    ensures opened { (rank : ℕ) (s t : Store) (opens held : List ℕ) (b at : ℕ) → Balanced s opens (b ∷ held) → Balanced t (at ∷ opens) (children (node_at s b) ++ held)
        → SameNodes s t → rank ≤ (node_at s b).rank → LowerLast rank opens (at ∷ opens) s t }
    ensures passed_on { (rank : ℕ) (s t : Store) (opens held : List ℕ) (b : ℕ) → Balanced s opens (b ∷ held) → Balanced t opens (children (node_at s b) ++ held)
        → SameNodes s t → rank ≤ (node_at s b).rank → LowerLast rank opens opens s t }

    // A free block is taken. An open block is written, or given up.
    ensures taken { (rank : ℕ) (opens : List ℕ) (s : Store) (b n : ℕ) → count_of s b ≡ 0 → LowerLast rank opens (b ∷ opens) s (with_count s b n) }
    ensures written { (rank : ℕ) (opens : List ℕ) (s : Store) (b : ℕ) (n : Node) → LowerLast rank (b ∷ opens) opens s (with_node s b n) }
    ensures abandoned { (rank : ℕ) (opens : List ℕ) (s : Store) (b n : ℕ) → LowerLast rank (b ∷ opens) opens s (with_count s b n) }
{}
