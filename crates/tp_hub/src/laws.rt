//! Laws of the hub, over all lists of events.

ghost use Rattle.std.specs.Prelude.{◌≡◌, ◌⊎◌, ◌+◌, ◌/◌, ℕ, true, None, Some, Option, List, [], ◌∷◌, ◌++◌, slice_get};
ghost use Rattle.tp_model.specs.Sectors.{Sector, sectors_of};
ghost use Rattle.tp_model.specs.Pool.{PlainPool, volume_sector};
ghost use Rattle.tp_model.specs.PoolStops.{Event, reopened};
ghost use Rattle.tp_model.specs.Clauses.{HasTrace, PoolCall, Traced, TracedCall, outline_of_traced, traced};
ghost use Rattle.nbd_session.specs.declared.phase.Profile.{Profile};
ghost use Rattle.nbd_wire.specs.declared.Request.{Request};
ghost use Rattle.nbd_wire.specs.declared.TheConstants.{REQUEST_MAGIC};
ghost use Rattle.nbd_wire.specs.Grammar.{FitsRequest, request_text};
ghost use Rattle.nbd_wire.specs.Replies.{simple_reply};
ghost use Rattle.nbd_session.specs.declared.phase.Course.TheVariants.{Listens};
ghost use Rattle.nbd_session.specs.declared.phase.Manner.{Manner};
ghost use Rattle.nbd_session.specs.declared.phase.Phase.TheVariants.{Transmission};
ghost use Rattle.nbd_session.specs.Requests.{form_of, is_long, long_error};
ghost use Rattle.nbd_session.specs.Session.{state};
ghost use Rattle.nbd_session.specs.Clauses.{GoesWithTrace};
ghost use Rattle.nbd_session.specs.Turns.{AreSame, AreTurns, Happened, IsFoundIn, Sessions, closed, pool_after, sent_to, sessions_after};
ghost use Rattle.tp_hub.specs.Told.{Told};
ghost use Rattle.tp_hub.specs.Runs.{AreServed, Brings, Comes, Incoming, Runs, Served, turns_in};
ghost use Rattle.tp_hub.specs.Parts.{IsIdle, IsMadeWhole};
ghost use Rattle.tp_hub.specs.Desks.{AreAsked, Exchange};
ghost use Rattle.tp_hub.specs.Serve.{HubRuns, PlainRuns, with_pool};
ghost use Rattle.tp_hub.specs.Serving.{HubState};
ghost use Rattle.tp_hub.specs.Covered.{AreOffered, Covers, IsCovered, IsKeptThere, IsNewer, IsWriteTaken, IsWritten, KeepsAll};
ghost use Rattle.tp_hub.specs.Lives.{AreHubLives, ArePlainLives, HubLife};
ghost use Rattle.tp_hub.specs.Pairs.{InTurn};

use tp_model::Volumes;

/// All that a run did are turns of its sessions over the pool, one after another. So what holds of turns holds of runs: over a pool that
/// has a trace they are turns of the traced plain pool, and lives of them, from one stop to the next, are runs of plain volumes.
pub fn runs_are_turns<V: Volumes>()
    ensures { (at after : Sessions) (pool new : V) (events : List Incoming) (before out : Told)
        → (run : Runs V.view.outline (PoolCall V.view) at pool events before out after new)
        → AreTurns V.view.outline (PoolCall V.view) at pool (turns_in run.served) }
{}

/// A run and one that goes on from there are one run, of the events of both.
pub fn runs_join<V: Volumes>()
    ensures { (at between after : Sessions) (pool mid new : V) (events more : List Incoming) (before out last : Told)
        → Runs V.view.outline (PoolCall V.view) at pool events before out between mid
        → Runs V.view.outline (PoolCall V.view) between mid more out last after new
        → Runs V.view.outline (PoolCall V.view) at pool (events ++ more) before last after new }
{}

/// What runs served one behind the other is one list of events that were served, whichever buffers their answers were added to.
pub fn runs_go_on<V: Volumes>()
    ensures { (at after : Sessions) (pool new : V) (xs : List (Served V)) (events : List Incoming) (before out : Told)
        → AreServed V.view.outline (PoolCall V.view) at pool xs
        → (run : Runs V.view.outline (PoolCall V.view) (sessions_after at (turns_in xs)) (pool_after pool (turns_in xs)) events before out after new)
        → AreServed V.view.outline (PoolCall V.view) at pool (xs ++ run.served)
        × (sessions_after at (turns_in (xs ++ run.served)) ≡ after) × (pool_after pool (turns_in (xs ++ run.served)) ≡ new) }
{}

/// A long request that is handed whole to a session which listens, as one piece: behind a run that takes it, and leaves no part of a request, all its parts were
/// made, one call of the pool each, in order, up to the first that was refused, and the last of them answered it.
pub fn long_requests_are_made<V: Volumes>()
    ensures { (at after : Sessions) (pool new : V) (n id size : ℕ) (manner : Manner) (r : Request) (before out : Told)
        → at n ≡ state (Transmission id size (Listens manner)) [] → manner.is_extended ≡ true
        → is_long r ≡ true → long_error size (form_of r) ≡ None → FitsRequest r
        → (run : Runs V.view.outline (PoolCall V.view) at pool (Brings n (request_text REQUEST_MAGIC r []) ∷ []) before out after new)
        → IsIdle after n
        → IsMadeWhole V.view.outline (PoolCall V.view) n id size manner r pool (turns_in run.served) }
{}

/// The headline of the hub. A pool is opened from an image, a hub with no session is made of it, and serves clients, messages and status lines in any number of
/// runs, until a stop comes at any moment, in a turn or after it. What the stop left is opened again, any number of times. Then the same events of the plain
/// pool have the same answers, so each client is sent the bytes of plain volumes, on one trace with the faults; and what a stop left is opened as the plain pool
/// after some turn not before the last answer that kept (that of a message that is done or of a FLUSH is one), but for sectors that were given a value since.
pub fn hub_lives_are_plain<V: Volumes>()
    ensures { (image : V.view.Image) (s : PlainPool) (lives : List (HubLife V V.view.Image))
        → V.view.stands_for image s → AreHubLives V.view image lives → ArePlainLives V.view s lives }
{}

/// CAN_MULTI_CONN in the protocol's words: a FLUSH that one client was answered covers what every client was answered before.
///
/// In the turns of a life of plain volumes, which are those of the hub (`hub_lives_are_plain`), some session's FLUSH is answered without an error, its own or the one that
/// was left of its request with FUA, whose answer it is. What is found behind a
/// stop at any moment since is the state behind that answer and some of the later events, but for sectors that were given a value in those behind these; where nothing
/// came since, it is the state behind the answer. So a sector that an earlier request of any session wrote is found as that one left it, or as a later event
/// left it or gave it.
pub fn a_flush_covers_all_clients<V: Volumes>()
    ensures found { (s P : PlainPool) (before behind : List (Happened Traced)) (flush : Happened Traced) (current : Option (Happened V))
        → AreTurns outline_of_traced (TracedCall V.view.has_use) closed (traced s []) (before ++ flush ∷ behind)
        → KeepsAll (sessions_after closed before) flush
        → IsFoundIn V.view s (sessions_after closed (before ++ flush ∷ behind)) (pool_after (traced s []) (before ++ flush ∷ behind)) current P
        → IsCovered V.view s flush.pool (sessions_after closed (before ++ flush ∷ behind)) (pool_after (traced s []) (before ++ flush ∷ behind)) current P }
    ensures alone { (s P : PlainPool) (events : List Event) (last : Event) → Covers s (events ++ last ∷ []) [] P → P ≡ reopened last.made }
    ensures written { (s P : PlainPool) (earlier between later : List Event) (write : Event) (id k : ℕ) → Covers s (earlier ++ write ∷ between) later P
        → (volume_sector P id k ≡ volume_sector write.made id k) ⊎ IsNewer (between ++ later) id k P }
{}

/// The same of one WRITE of any session, which is answered without an error in a turn before another session's, or its own, FLUSH is, or is kept apart and was made
/// before: each sector of it that the volume has is found behind a stop at any moment since the FLUSH was answered, or a newer one. So it is behind the answer
/// to a WRITE with FUA, which that of its own FLUSH is.
pub fn a_flush_keeps_what_any_client_wrote<V: Volumes>()
    ensures { (s P : PlainPool) (first between behind : List (Happened Traced)) (write flush : Happened Traced) (current : Option (Happened V))
        → AreTurns outline_of_traced (TracedCall V.view.has_use) closed (traced s []) ((first ++ write ∷ between) ++ flush ∷ behind)
        → (w : IsWritten (sessions_after closed first) write) → KeepsAll (sessions_after closed (first ++ write ∷ between)) flush
        → IsFoundIn V.view s (sessions_after closed ((first ++ write ∷ between) ++ flush ∷ behind)) (pool_after (traced s []) ((first ++ write ∷ between) ++ flush ∷ behind)) current P
        → (k : ℕ) (x : Sector) → slice_get (sectors_of w.payload) k ≡ Some x
        → IsKeptThere V.view write.pool (sessions_after closed ((first ++ write ∷ between) ++ flush ∷ behind)) (pool_after (traced s []) ((first ++ write ∷ between) ++ flush ∷ behind)) current
        w.volume (w.request.offset / 512 + k) x P }
{}

/// A client whose profile writes through loses no answered WRITE in a crash. No client's FLUSH is
/// needed for that.
///
/// A session takes a WRITE in a turn. From that turn on to a later one it is sent the reply that the
/// WRITE is done, and nothing else. After a crash at any moment since, each sector of the WRITE that
/// the volume has is found, or a newer one.
pub fn an_answered_write_through_is_kept<V: Volumes>()
    ensures { (s P : PlainPool) (first more behind : List (Happened Traced)) (write : Happened Traced) (current : Option (Happened V))
        → AreTurns outline_of_traced (TracedCall V.view.has_use) closed (traced s []) (first ++ write ∷ (more ++ behind))
        → (w : IsWriteTaken (sessions_after closed first) write) → AreOffered w.session first → sent_to w.session (write ∷ more) ≡ simple_reply 0 w.request.cookie []
        → IsFoundIn V.view s (sessions_after closed (first ++ write ∷ (more ++ behind))) (pool_after (traced s []) (first ++ write ∷ (more ++ behind))) current P
        → (k : ℕ) (x : Sector) → slice_get (sectors_of w.payload) k ≡ Some x
        → IsKeptThere V.view write.pool (sessions_after closed (first ++ write ∷ (more ++ behind))) (pool_after (traced s []) (first ++ write ∷ (more ++ behind))) current
        w.volume (w.request.offset / 512 + k) x P }
{}

/// Over a pool that has a trace a run of the hub is one of the traced plain pool: the same events have the same answers, and these, the faults
/// and what a stop leaves at any moment of any turn stand on one trace.
pub fn runs_are_traced<V: Volumes>()
    ensures { (from pool new : V) (s : PlainPool) (t : Traced) (at after : Sessions) (events : List Incoming) (before out : Told)
        → HasTrace V.view from s pool t
        → (run : Runs V.view.outline (PoolCall V.view) at pool events before out after new)
        → (t' : Traced) × (plainly : Runs outline_of_traced (TracedCall V.view.has_use) at t events before out after t')
        × HasTrace V.view from s new t' × AreSame V.view from s pool t (turns_in run.served) (turns_in plainly.served) }
{}

/// Asks of a hub one after another, over a pool that has a trace, are asks of a hub of the traced plain pool: the same was taken and the same answered, and
/// what a stop leaves at any moment of any of them stands on the trace. So what is carried over a desk that is a hub, as `carry` does, goes with the trace.
pub fn asks_are_traced<V: Volumes>()
    ensures { (a b : HubState V) (xs : List Exchange) → AreAsked (HubRuns V.view) a xs b
        → GoesWithTrace V.view a.pool b.pool (λ t t'. AreAsked (PlainRuns V.view) (with_pool a t) xs (with_pool b t')) }
{}

/// Where two clients come, and the first sends a text and then the second, each is greeted, and the second is heard over the pool that the first
/// left; what one sends changes nothing of the other's session.
pub fn two_are_heard_in_turn<V: Volumes>()
    ensures { (one two : Profile) (pool new : V) (first second : List ℕ) (before out : Told) (after : Sessions)
        → Runs V.view.outline (PoolCall V.view) closed pool (Comes 0 one ∷ Comes 1 two ∷ Brings 0 first ∷ Brings 1 second ∷ []) before out after new
        → InTurn V.view.outline (PoolCall V.view) one two pool first second before out after new }
{}
