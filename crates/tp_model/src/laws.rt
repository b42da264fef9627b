//! Laws of the definitions, each the contract of a function that does nothing.
ghost use Rattle.std.specs.Prelude.{◌≡◌, ◌≢◌, ◌⊎◌, ◌/◌, ◌<◌, ◌≤◌, ◌++◌, ◌∷◌, [], ℕ, Bool, false, true, List, IsSome, Some, length, slice_get, IsTrue, MatchOption};
ghost use Rattle.std.specs.Ordering.{nat_cmp};
ghost use Rattle.std.specs.FinMap.{entries, find, get, is_sorted};
ghost use Rattle.tp_model.specs.Sectors.{Sector};
ghost use Rattle.tp_model.specs.Disk.{DiskState, Writes, after_read, after_flush};
ghost use Rattle.tp_model.specs.DiskStops.{Leaves, LeavesOnly, PartlyOverlaid, StoppedSince, moment as moment_of};
ghost use Rattle.tp_model.specs.Pool.{FindsHeld, IsExclusive, IsLawful, IsRenamed, IsShared, IsSound, PlainPool, copy_id, hold_count, slot_at, volume_sector, volume_size, volume_slots};
ghost use Rattle.tp_model.specs.Calls.{Answer, Call, CreateSnap, Delete, Done, Edits, Flush, Gave, IsAllowed, Listed, Makes, Read, Refused, ReleaseMetadataSnap, ReserveMetadataSnap, Step, Takes, Walk, Write, ends_in_commit, is_flush, is_message, volume_asked, IsOneOf, may_accept, piece_from, refusal_of, refusals};
ghost use Rattle.tp_model.specs.PoolStops.{Event, GivenBy, GivenIn, MayBeLeftSince, MayReopen, Nothing, keeps, reopened};
ghost use Rattle.tp_model.specs.Clauses.{AreCalls, AreTraced, Asked, Called, Continues, HasTrace, Meets, OpensSince, Traced, Unkept, found_now, traced, PoolCall};

use crate::mode::Mode;
use crate::refusal::Refusal;
use crate::volumes::Volumes;

/// A mapped block is exclusive where it is not shared, and nowhere else.
pub fn mapped_blocks_are_exclusive_or_shared()
    ensures not_both { (p : PlainPool) (id block : ℕ) → IsExclusive p id block → IsShared p id block → ⊥ }
    ensures either { (p : PlainPool) (id block : ℕ) → IsSome (slot_at p id block) → (IsShared p id block → ⊥) → IsExclusive p id block }
{}

/// Each call that is allowed leaves a lawful pool lawful, whatever is answered, also where the disk fails in it.
pub fn calls_are_lawful()
    ensures { (old : PlainPool) (call : Call) (answer : Answer) (made new : PlainPool)
        → IsAllowed old call → IsSound old → Takes old call answer made new → IsSound made × IsSound new }
{}

/// Where each volume that is held is there, so it is after each call, whatever is answered, also where the disk fails in it.
pub fn held_volumes_stay()
    ensures { (old : PlainPool) (call : Call) (answer : Answer) (made new : PlainPool) → Takes old call answer made new
        → FindsHeld old → FindsHeld new }
{}

/// And the volumes that are held have the sizes that they had: they are busy.
pub fn held_sizes_stay()
    ensures { (old : PlainPool) (call : Call) (answer : Answer) (made new : PlainPool) → Takes old call answer made new
        → FindsHeld old → (id : ℕ) → 0 < hold_count old.holds id → volume_size new id ≡ volume_size old id }
{}

/// A snapshot that is made comes to be under an id that no volume has, so that nobody holds one of that id. It has the sectors of its origin, and all other volumes
/// stay as they are.
pub fn snapshots_are_new()
    ensures unheld { (p made q : PlainPool) (id origin : ℕ) → Takes p (CreateSnap id origin) Done made q → FindsHeld p → hold_count p.holds id ≡ 0 }
    ensures same { (p made q : PlainPool) (id origin k : ℕ) → Takes p (CreateSnap id origin) Done made q → volume_sector q id k ≡ volume_sector p origin k }
    ensures others { (p made q : PlainPool) (id origin other : ℕ) → Takes p (CreateSnap id origin) Done made q → other ≢ id → get q.volumes other ≡ get p.volumes other }
{}

/// What changes sectors of a volume, and what removes it, leaves all other volumes as they are: so what is written to a snapshot is not in its origin.
pub fn changes_leave_other_volumes()
    ensures edited { (p q : PlainPool) (call : Call) (id other : ℕ) → Edits p call id q → other ≢ id → get q.volumes other ≡ get p.volumes other }
    ensures removed { (p q : PlainPool) (id other : ℕ) → Makes p (Delete id) q → other ≢ id → get q.volumes other ≡ get p.volumes other }
{}

/// A call makes one pool, but for the names of labels, the metadata blocks that it takes, and the number of a held root.
pub fn calls_are_determined()
    ensures { (old : PlainPool) (call : Call) (one other : PlainPool)
        → Makes old call one → Makes old call other → one.meta_used ≡ other.meta_used → one.held_root ≡ other.held_root → IsRenamed one other }
{}

/// What the definitions say of a call can be met on every pool whose blocks have sectors: an accepted call makes some
/// pool, and each call has an answer.
pub fn calls_are_possible()
    ensures made { (old : PlainPool) (call : Call) → 0 < old.geometry.block_sectors → (new : PlainPool) × Makes old call new }
    ensures answered { (old : PlainPool) (call : Call) → 0 < old.geometry.block_sectors
        → (answer : Answer) × (new : PlainPool) × Step old call answer new }
{}

/// What the tests of a call come to may be answered in the mode of the pool.
pub fn tests_may_be_answered()
    ensures { (pool : PlainPool) (call : Call) → MatchOption (refusal_of pool call)
        (IsTrue (may_accept pool.mode call)) (λ reason. IsOneOf reason (refusals pool.mode call)) }
{}

/// Where nothing was given since a state was kept, that state is found.
pub fn kept_state_is_found()
    ensures { (kept found : PlainPool) → MayReopen kept Nothing found → found ≡ reopened kept }
{}

/// No call gives a sector of a held copy a value: a stop leaves each as it was kept.
pub fn copies_are_as_kept()
    ensures { (kept found : PlainPool) (es : List Event) → MayReopen kept (GivenIn es) found
        → (id k : ℕ) → volume_sector found (copy_id id) k ≡ volume_sector kept (copy_id id) k }
{}

/// What is held stays as it is until it is given up: each call that is allowed, but those that hold the mapping and give it up, leaves the held
/// root and each held copy as they were, whatever is answered, also where the disk fails in it.
pub fn copies_stay()
    ensures { (old : PlainPool) (call : Call) (answer : Answer) (made new : PlainPool) → IsAllowed old call → Takes old call answer made new
        → call ≢ ReserveMetadataSnap → call ≢ ReleaseMetadataSnap
        → (new.held_root ≡ old.held_root) × ((id : ℕ) → get new.volumes (copy_id id) ≡ get old.volumes (copy_id id)) }
{}

/// A request to a volume that is held is not refused for want of the volume.
pub fn requests_find_their_volume<V: Volumes>()
    ensures { (old new : V) (s : PlainPool) (call : Call) (id : ℕ) → V.view.shows old s → volume_asked call ≡ Some id
        → 0 < hold_count (V.view.outline old).holds id → Called V.view old new call (Refused Refusal.NoSuchDevice) → ⊥ }
{}

/// A call of a walk lists the slots of a volume from a block on exactly, as far as it goes: each block from there on has the slot that is found in the piece, and none
/// where none is found. That is so of every block where the piece has fewer than 252 slots, and else up to the last block that it lists, which is no earlier than the one
/// that was asked for: so the next piece is asked for from behind it.
pub fn walks_are_exact()
    ensures short { (p : PlainPool) (id from block : ℕ) → length (piece_from from (entries (volume_slots p id))) < 252 → from ≤ block
        → find nat_cmp block (piece_from from (entries (volume_slots p id))) ≡ slot_at p id block }
    ensures full { (p : PlainPool) (id from block last label : ℕ) → slice_get (piece_from from (entries (volume_slots p id))) 251 ≡ Some (last, label) → from ≤ block → block ≤ last
        → find nat_cmp block (piece_from from (entries (volume_slots p id))) ≡ slot_at p id block }
    ensures ordered { (p : PlainPool) (id from : ℕ) → IsTrue (is_sorted nat_cmp (piece_from from (entries (volume_slots p id)))) }
    ensures onward { (p : PlainPool) (id from i block label : ℕ) → slice_get (piece_from from (entries (volume_slots p id))) i ≡ Some (block, label) → from ≤ block }
{}

/// Where two volumes of a lawful pool have one slot at a block, or both none, they have equal sectors in it. So where the blocks are taken out of one of them at which the
/// slots are not equal, and those of the other are put in their place, it is the other one.
pub fn equal_slots_have_equal_sectors()
    ensures { (p : PlainPool) (one other k : ℕ) (here there : Sector) → IsLawful p → 0 < p.geometry.block_sectors
        → slot_at p one (k / p.geometry.block_sectors) ≡ slot_at p other (k / p.geometry.block_sectors)
        → volume_sector p one k ≡ Some here → volume_sector p other k ≡ Some there → here ≡ there }
{}

/// What a stop may leave of a lawful pool, by calls that are allowed, is a lawful pool.
pub fn stops_are_lawful()
    ensures { (kept found : PlainPool) (e : Event) → IsSound kept → IsAllowed e.before e.call
        → MayReopen kept (GivenBy e) found → IsSound found }
{}

/// A fact about images.
pub trait Claim {
    ghost claim: { List Sector → Type 0 };
}

/// What a stop leaves from one moment to another, call by call of the disk.
pub fn moments_of_a_disk<P: Claim, Q: Claim>()
    // No time has passed.
    ensures starts { (disk : DiskState) → Leaves P.claim disk.cells → LeavesOnly disk disk P.claim }

    // One time after another.
    ensures joins { (a b c : DiskState) → LeavesOnly a b P.claim → LeavesOnly b c P.claim → LeavesOnly a c P.claim }
    ensures weakens { (a b : DiskState) → ((image : List Sector) → P.claim image → Q.claim image)
        → LeavesOnly a b P.claim → LeavesOnly a b Q.claim }

    // One call more. A write leaves some of its sectors written, each by itself.
    ensures read { (a b c : DiskState) (ok : Bool) → LeavesOnly a b P.claim → c ≡ after_read ok b → LeavesOnly a c P.claim }
    ensures write { (a b c : DiskState) (at : ℕ) (values : List Sector) → LeavesOnly a b P.claim → Writes at values b c → Leaves Q.claim b.cells
        → ((before image : List Sector) → Q.claim before → PartlyOverlaid at values before image → P.claim image)
        → LeavesOnly a c P.claim }
    ensures flush { (a b c : DiskState) (ok : Bool) → LeavesOnly a b P.claim → c ≡ after_flush ok b → LeavesOnly a c P.claim }

    // What it says.
    ensures stopped { (a b : DiskState) → LeavesOnly a b P.claim
        → (image : List Sector) → StoppedSince (moment_of a) b image → P.claim image }
{}

/// A pool, where nothing was done to it yet, has the empty trace, and each call of it adds one event. What a stop leaves at any moment
/// since some place of its trace is what may be found there.
pub fn calls_are_traced<V: Volumes>()
    // At the start.
    ensures starts { (pool : V) (s : PlainPool) → V.view.shows pool s → OpensSince V.view pool (V.view.moment pool)
        → HasTrace V.view pool s pool (traced s []) }

    // A list of calls.
    ensures calls { (from pool : V) (s : PlainPool) (t : Traced) (calls : List (Asked V))
        → HasTrace V.view from s pool t
        → AreCalls (PoolCall V.view) pool calls
        → (ks : List (Asked Traced)) × AreTraced V.view from s pool t calls ks }

    // No time has passed, and one time after another.
    ensures stays { (from pool : V) (s : PlainPool) (t : Traced)
        → HasTrace V.view from s pool t
        → Continues V.view from s pool t pool t }
    ensures joins { (from a b c : V) (s : PlainPool) (t u v : Traced)
        → Continues V.view from s a t b u
        → Continues V.view from s b u c v
        → Continues V.view from s a t c v }

    // From a pool of which a stop leaves the state at the start alone, a stop leaves what came of states of the trace alone.
    ensures settled { (from : V) (s : PlainPool) (first later : List Event) (P : PlainPool)
        → ((S : PlainPool) → found_now V.view from S → MayReopen s Nothing S)
        → MayBeLeftSince (found_now V.view from) s first later P → MayBeLeftSince (λ S. ⊥) s first later P }
{}

/// After an answer that keeps, and nothing since, the state after it is found, and no other.
pub fn kept_answers_are_found()
    ensures { (start : PlainPool) (first : List Event) (e : Event) (P : PlainPool) → keeps e.call e.answer ≡ true
        → MayBeLeftSince (λ S. ⊥) start (first ++ e ∷ []) [] P → P ≡ reopened e.made }
{}

/// A call that ends in a commit, made but for that, and the FLUSH right behind it, are together that call, answered as the FLUSH is: what is made, the cause of a fault,
/// how often the disk is flushed, and what a stop leaves, in the two and after them.
pub fn unkept_calls_are_flushed<V: Volumes>()
    ensures done { (old mid new : V) (call : Call) → ends_in_commit call ≡ true → is_flush call ≡ false → Unkept V.view old mid call
        → Meets V.view mid new Flush Done → Meets V.view old new call Done }
    ensures refused { (old mid new : V) (call : Call) (reason : Refusal) → ends_in_commit call ≡ true → is_flush call ≡ false → Unkept V.view old mid call
        → Meets V.view mid new Flush (Refused reason) → Meets V.view old new call (Refused reason) }

    // A WRITE that was done is one with FUA, made but for its commit. That FUA makes no difference to which blocks a WRITE wants is for a pool to say.
    ensures writes { (old mid : V) (id sector : ℕ) (sectors : List Sector)
        → (V.view.lacks old (Write id sector sectors false) → V.view.lacks old (Write id sector sectors true))
        → Meets V.view old mid (Write id sector sectors false) Done → Unkept V.view old mid (Write id sector sectors true) }

    // A READ of a volume that is held, of what a message has made, is one of the pool before the message.
    ensures reads { (old mid : V) (call : Call) (id sector count : ℕ) (sectors : List Sector) → is_message call ≡ true → 0 < hold_count (V.view.outline old).holds id
        → Unkept V.view old mid call → Meets V.view mid mid (Read id sector count) (Gave sectors) → Meets V.view old old (Read id sector count) (Gave sectors) }

    // And so is a walk over one.
    ensures walks { (old mid : V) (call : Call) (id from : ℕ) (slots : List (ℕ × ℕ)) → is_message call ≡ true → 0 < hold_count (V.view.outline old).holds id
        → Unkept V.view old mid call → Meets V.view mid mid (Walk id from) (Listed slots) → Meets V.view old old (Walk id from) (Listed slots) }
{}
