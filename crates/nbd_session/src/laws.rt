//! Laws of a session, over all texts.

ghost use Rattle.std.specs.Prelude.{◌≡◌, ◌++◌, ◌<◌, ◌≤◌, ◌+◌, ◌*◌, ◌%◌, ℕ, List, Bool, true, length};
ghost use Rattle.std.specs.FinMap.{entries};
ghost use Rattle.tp_model.specs.Pool.{IsSound, PlainPool, hold_count, outline_of, volume_sectors, volume_slots};
ghost use Rattle.tp_model.specs.Calls.{Delete, Done, Grow, Takes, piece_from};
ghost use Rattle.nbd_wire.specs.declared.Request.{Request};
ghost use Rattle.nbd_wire.specs.declared.contexts.MetaContext.TheVariants.{Allocation, Since};
ghost use Rattle.nbd_session.specs.declared.phase.Phase.{Phase};
ghost use Rattle.nbd_session.specs.Session.{LetsGo, State, Steps, older_in};
ghost use Rattle.nbd_session.specs.Clauses.{Feeds, IsReady, PlainCall};
ghost use Rattle.nbd_session.specs.Status.{AreTold, IsAllocation, IsBlank, IsEqual, IsMapped, IsOther, IsSame, IsSince, IsUnmapped, TellsOf, bytes_of, first_block, unit_of};
ghost use Rattle.nbd_session.specs.Holes.{Anything, IsHoled, TellsHoles, bytes_in, filled};
ghost use Rattle.nbd_session.specs.Talk.{Converses};
ghost use Rattle.nbd_session.specs.Turns.{AreLives, AreRuns, AreSame, AreTurns, Happened, Life, Sessions, sent_to};
ghost use Rattle.tp_model.specs.Clauses.{HasTrace, PoolCall, Traced, TracedCall, outline_of_traced};

use tp_listings::pages_are_exact;
use tp_model::Volumes;

/// How much a step takes depends on what is held and on the piece alone, and not on the pool.
pub fn one_place<V: Volumes>()
    ensures plain { (old new other : State) (p q p' q' : PlainPool) (piece sent also : List ℕ) (taken next : ℕ) (ended ends : Bool)
        → Steps outline_of PlainCall old p piece taken sent ended new p' → Steps outline_of PlainCall old q piece next also ends other q' → taken ≡ next }
    ensures served { (old new other : State) (p q p' q' : V) (piece sent also : List ℕ) (taken next : ℕ) (ended ends : Bool)
        → Steps V.view.outline (PoolCall V.view) old p piece taken sent ended new p' → Steps V.view.outline (PoolCall V.view) old q piece next also ends other q'
        → taken ≡ next }
{}

/// Over a pool that shows a plain pool a session is one over that plain pool, also where nothing is known of what a stop leaves.
pub fn sessions_are_plain<V: Volumes>()
    ensures step { (pool after : V) (s : PlainPool) (old new : State) (piece sent : List ℕ) (taken : ℕ) (ended : Bool)
        → V.view.shows pool s → Steps V.view.outline (PoolCall V.view) old pool piece taken sent ended new after
        → (s' : PlainPool) × Steps outline_of PlainCall old s piece taken sent ended new s' × V.view.shows after s' }
    ensures talk { (pool after : V) (s : PlainPool) (old new : State) (piece before sent : List ℕ)
        → V.view.shows pool s → Converses V.view.outline (PoolCall V.view) old piece pool before sent new after
        → (s' : PlainPool) × Converses outline_of PlainCall old piece s before sent new s' × V.view.shows after s' }
    ensures end { (pool after : V) (s : PlainPool) (phase : Phase)
        → V.view.shows pool s → LetsGo V.view.outline (PoolCall V.view) phase pool after
        → (s' : PlainPool) × LetsGo outline_of PlainCall phase s s' × V.view.shows after s' }
{}

/// What is sent for two pieces, one fed after the other, is an answer to both as one piece: it does not tell where the text was cut.
pub fn pieces_join<V: Volumes>()
    ensures { (start mid new : State) (pool q after : V) (one two before now sent : List ℕ)
        → Feeds V.view start pool one before now mid q → Feeds V.view mid q two now sent new after
        → Feeds V.view start pool (one ++ two) before sent new after }
{}

/// Over a pool that has a trace, turns of any number of sessions, with other calls of the pool between them, are turns of the traced plain
/// pool: the same bytes are sent to each session, and answers, faults and what a stop leaves at any moment stand on one trace.
pub fn turns_are_traced<V: Volumes>()
    ensures traced { (from pool : V) (s : PlainPool) (at : Sessions) (t : Traced) (turns : List (Happened V))
        → HasTrace V.view from s pool t → AreTurns V.view.outline (PoolCall V.view) at pool turns
        → (plainly : List (Happened Traced)) × AreTurns outline_of_traced (TracedCall V.view.has_use) at t plainly
        × AreSame V.view from s pool t turns plainly }
    ensures sent { (from pool : V) (s : PlainPool) (t : Traced) (turns : List (Happened V)) (plainly : List (Happened Traced)) (n : ℕ)
        → AreSame V.view from s pool t turns plainly → sent_to n turns ≡ sent_to n plainly }
{}

/// The same from one image to the next: a pool is opened from an image, and stopped at any moment, in a turn or after it. All sessions are
/// closed then, and what the stop left is opened again, any number of times. Every byte sent is that of plain volumes, and what a stop left
/// is opened as the plain pool after some event not before the last answer that kept, but for sectors that were given a value since.
pub fn lives_are_runs<V: Volumes>()
    ensures { (image : V.view.Image) (s : PlainPool) (lives : List (Life V V.view.Image))
        → V.view.stands_for image s → AreLives V.view image lives → AreRuns V.view s lives }
{}

/// What BLOCK_STATUS is answered is exact: each byte that is told as data lies in a block that is mapped, and each byte of a hole in one that is not, where sectors are
/// zero, in any pool that calls make. The extents begin at the request's first byte, each has a byte at least, none ends behind the request, and with REQ_ONE there is one alone.
pub fn statuses_are_exact()
    ensures exact { (s : PlainPool) (id : ℕ) (is_last : Bool) (r : Request) (sent : List ℕ) → 0 < r.len → 0 < unit_of s.geometry → first_block (unit_of s.geometry) r < 16777216
        → IsAllocation is_last (unit_of s.geometry) r (piece_from (first_block (unit_of s.geometry) r) (entries (volume_slots s id))) sent
        → TellsOf is_last Allocation (IsMapped s id) (IsUnmapped s id) r sent }
    ensures zeros { (s : PlainPool) (id at : ℕ) (extents : List (ℕ × ℕ)) → IsSound s → AreTold Allocation (IsMapped s id) (IsUnmapped s id) at extents
        → AreTold Allocation (IsMapped s id) (IsBlank s id) at extents }
{
    pages_are_exact();
}

/// What BLOCK_STATUS is answered since an older volume is exact too: each byte that is told as clean lies in a block that has the same data block in both volumes, or none in either, and
/// each that is told as dirty in one that has not. In any pool that calls make, what is clean reads the same in both, where both have it. The extents are such as those of above.
pub fn changes_are_exact()
    ensures exact { (s : PlainPool) (old id : ℕ) (r : Request) (sent : List ℕ) → 0 < r.len → 0 < unit_of s.geometry → first_block (unit_of s.geometry) r < 16777216
        → IsSince (unit_of s.geometry) r (piece_from (first_block (unit_of s.geometry) r) (entries (volume_slots s old)))
        (piece_from (first_block (unit_of s.geometry) r) (entries (volume_slots s id))) sent
        → TellsOf true Since (IsOther s old id) (IsSame s old id) r sent }
    ensures equal { (s : PlainPool) (old id at : ℕ) (extents : List (ℕ × ℕ)) → IsSound s → AreTold Since (IsOther s old id) (IsSame s old id) at extents
        → AreTold Since (IsOther s old id) (IsEqual s old id) at extents }
{
    pages_are_exact();
}

/// The older volume that a session compares with stays the volume that SET_META_CONTEXT selected: the session holds it in each phase that names it, and no pool accepts that a volume is
/// deleted or grown which is held.
pub fn older_volumes_stay<V: Volumes>()
    ensures held { (phase : Phase) (pool : V) → IsReady phase (V.view.outline pool) (V.view.more pool) → older_in phase < 16777216 → 0 < hold_count (V.view.outline pool).holds (older_in phase) }
    ensures deleted { (s made after : PlainPool) (id : ℕ) → 0 < hold_count s.holds id → Takes s (Delete id) Done made after → ⊥ }
    ensures grown { (s made after : PlainPool) (id blocks : ℕ) → 0 < hold_count s.holds id → Takes s (Grow id blocks) Done made after → ⊥ }
{}

/// What a long READ is answered in chunks is exact: there is a chunk for each of some extents of the request, one behind the other, the last one alone says that it is, each byte of a hole lies in a block that is not mapped,
/// and who puts the chunks over a buffer, the bytes of data as they are and zeros where a hole is, has what was read, in any pool that calls make.
pub fn holes_are_exact()
    ensures exact { (s : PlainPool) (id : ℕ) (r : Request) (given sent : List ℕ) → 0 < r.len → length given ≡ r.len → 0 < unit_of s.geometry → first_block (unit_of s.geometry) r < 16777216
        → IsHoled (unit_of s.geometry) r given (piece_from (first_block (unit_of s.geometry) r) (entries (volume_slots s id))) sent
        → TellsHoles (IsUnmapped s id) r given sent }
    ensures filled { (s : PlainPool) (id : ℕ) (r : Request) (extents : List (ℕ × ℕ)) → IsSound s → r.offset % 512 ≡ 0 → r.len % 512 ≡ 0
        → r.offset + r.len ≤ 512 * length (volume_sectors s id) → AreTold Allocation Anything (IsUnmapped s id) r.offset extents → bytes_of extents ≡ r.len
        → filled extents (bytes_in s id r) ≡ bytes_in s id r }
{
    pages_are_exact();
}
