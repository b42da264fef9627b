//! The headline, for the pool that is stored on a disk, and for the one on caches that the program uses; and what joins one call of the program to the next.

ghost use Rattle.std.specs.Prelude.{◌≡◌, ◌≢◌, ◌⊎◌, Bool, Err, List, [], Ok, Option, Result, ℕ};
ghost use Rattle.tp_model.specs.Sectors.{Sector};
ghost use Rattle.tp_model.specs.Pool.{PlainPool};
ghost use Rattle.tp_model.specs.Calls.{Answer, Status};
ghost use Rattle.tp_model.specs.PoolStops.{MayBeLeftSince, reopened};
ghost use Rattle.tp_model.specs.Clauses.{events_of};
ghost use Rattle.tp_model.specs.Disk.{DiskState, seen};
ghost use Rattle.tp_msg.specs.Messages.{reading};
ghost use Rattle.tp_msg.specs.declared.message.Message.{Message};
ghost use Rattle.tp_image.specs.Fresh.{empty_pool};
ghost use Rattle.tp_image.specs.Stands.{StandsFor};
ghost use Rattle.tp_pool.specs.AtMetadata.{served};
ghost use Rattle.tp_pool.specs.Held.{Held, IsSomePool};
ghost use Rattle.tp_served.specs.AtMetadata.{cached};
ghost use Rattle.tp_served.specs.Served.{Cached};
ghost use Rattle.nbd_session.specs.Turns.{AreLives, AreRuns, Life};
ghost use Rattle.tp_hub.specs.Serving.{Slots};
ghost use Rattle.tp_hub.specs.Desks.{Exchange};
ghost use Rattle.tp_msg.specs.Asked.{call_of};
ghost use Rattle.tp_hub.specs.Streams.{Makes, StreamCall};
ghost use Rattle.tp_hub.specs.declared.client.Carried.{Carried};
ghost use Rattle.tp_images.specs.Deeds.{Deed, IsLeftBy};
ghost use Rattle.tp_lines.specs.Plays.{PlaysScript};
ghost use Rattle.nbd_session.specs.declared.phase.Profile.{Profile};
ghost use Rattle.tp_lines.specs.declared.play.Stopped.{Stopped};
ghost use Rattle.tp_tasks.specs.declared.task.Sizes.{Sizes};
ghost use Rattle.tp_commands.specs.Images.{IsFormatted, IsMessageGiven, IsStatusTold, sizes_asked};
ghost use Rattle.tp_commands.specs.Lives.{IsFoundAs, IsKept, IsPlainLife};
ghost use Rattle.tp_commands.specs.Printing.{status_call};
ghost use Rattle.tp_commands.specs.Scripts.{PlaysImage};
ghost use Rattle.tp_commands.specs.Serving.{FeedsImage, IsFed, ServesImage};
ghost use Rattle.tp_headline.specs.Users.{IsAccepted, IsLivedOn, IsMadeHonest, IsTurnedDown, IsUnread, KeepsPool};

use nbd_session::lives_are_runs;
use tp_disk::Disk;
use tp_image::fresh_image_stands_for_the_empty_pool;
use tp_meta::Metadata;
use tp_model::Refusal;
use tp_pool::Pool;
use tp_served::Served;

/// The lives of a stored pool, the first from the image of a commit, and each further one from what the stop before it left. In each life the
/// pool is opened, any number of clients take turns, with other calls of the pool between them, and a stop comes at any moment, in a turn
/// or after it. Then the turns are those of the plain pool for which the image stands, on one trace: the same bytes are sent, the same
/// answers are given, and each fault has its cause in its own event. What the stop left is opened as the plain pool after some event not before
/// the last answer that kept, but for sectors that were given a value since, and the next life is one of that plain pool.
///
/// By `tp_pool::opened_pools_go_on` an opening (`IsOpened`) is what `Pool::open` says on an honest disk that is settled, and `Pool::format` on an
/// honest one; by `tp_pool::pool_calls_are_calls` the pool's other calls are turns; a client's turn is what `nbd_session::Session` says.
pub fn stored_pools_are_plain<D: Disk, M: Metadata>()
    ensures { (image : List Sector) (s : PlainPool) (lives : List (Life (Held M) (List Sector))) → IsSomePool image × StandsFor image s
        → AreLives (served M.Metadata) image lives → AreRuns (served M.Metadata) s lives }
{
    lives_are_runs::<Pool<D, M>>();
}

/// The same of a pool on caches, which the program uses: the images are those that stops leave of the disk under its caches.
///
/// An opening is what `Served::open` says on an honest disk that is settled, and `Served::format` on an honest one, each in its clause `opened`; of each
/// call `Served` says itself that it is a turn.
pub fn served_pools_are_plain<D: Disk + Drop, M: Metadata + Drop>()
    ensures { (image : List Sector) (s : PlainPool) (lives : List (Life (Cached M) (List Sector))) → IsSomePool image × StandsFor image s
        → AreLives (cached M.Metadata) image lives → AreRuns (cached M.Metadata) s lives }
{
    lives_are_runs::<Served<D, M>>();
}

/// From one call of the program to the next, where the disk of an image was given back honest and is opened as `Images` promises: as it was given back, or as a
/// stop left it then.
pub fn images_go_on()
    // The image is opened as a pool that may be found behind the life of the plain pool that was lived on it.
    ensures found { (s : PlainPool) (begun ended : Slots) (asks : List Exchange) (answer : Option Answer) (before after disk : DiskState)
        → (life : IsPlainLife s begun ended asks answer before after) → IsLeftBy after disk
        → IsFoundAs (MayBeLeftSince (λ S. ⊥) s [] (events_of life.over.trace)) (seen disk.cells) }
    // Where closing was done, as the pool at its end and no other.
    ensures kept { (s : PlainPool) (shut disk : DiskState) → IsKept s shut → IsLeftBy shut disk → IsFoundAs (λ P. P ≡ reopened s) (seen disk.cells) }
{}

/// From one command of the program on an image to the next: the plain pool for which the image stands. Between two of them the image may be stopped in any way, as
/// often as one likes: it stands for that pool then, too.
pub fn commands_go_on()
    // An image that was made as an honest disk, or a device that was opened as one, stands for the pool without volumes, whose line is told.
    ensures made { (name : List ℕ) (sizes : Sizes) (overwrites : Bool) (old new : List Deed) (calls calls' : List StreamCall) → IsMadeHonest name old new
        → IsFormatted name sizes overwrites old new calls calls' (Ok (tt {0})) → IsAccepted name new (empty_pool (sizes_asked sizes)) Status calls calls' }
    // A message that was accepted is that of its line, which no test of the plain pool refuses, and the image stands for the pool that it makes.
    ensures given { (name line : List ℕ) (old new : List Deed) (calls calls' : List StreamCall) (s : PlainPool) → KeepsPool name old s
        → IsMessageGiven name line old new calls calls' (Ok (tt {0})) → (m : Message) × (reading line ≡ Ok m) × IsAccepted name new s (call_of m) calls calls' }
    // A status that was told is that of the plain pool.
    ensures told { (name : List ℕ) (id : Option ℕ) (old new : List Deed) (calls calls' : List StreamCall) (s : PlainPool) → KeepsPool name old s
        → IsStatusTold name id old new calls calls' (Ok (tt {0})) → IsAccepted name new s (status_call id) calls calls' }
    // One that is refused, but for a fault or want of memory, is refused by that very test of the plain pool, or since its line is none.
    ensures ungiven { (name line : List ℕ) (reason : Refusal) (old new : List Deed) (calls calls' : List StreamCall) (s : PlainPool) → KeepsPool name old s
        → reason ≢ Refusal.Fault → reason ≢ Refusal.Memory → IsMessageGiven name line old new calls calls' (Err reason)
        → IsUnread name line new s reason calls calls' ⊎ ((m : Message) × (reading line ≡ Ok m) × IsTurnedDown name new s (call_of m) reason calls calls') }
    ensures untold { (name : List ℕ) (id : Option ℕ) (reason : Refusal) (old new : List Deed) (calls calls' : List StreamCall) (s : PlainPool) → KeepsPool name old s
        → reason ≢ Refusal.Fault → reason ≢ Refusal.Memory → IsStatusTold name id old new calls calls' (Err reason) → IsTurnedDown name new s (status_call id) reason calls calls' }
    // One client, the events of a script, and clients at once: each time it is a life of the plain pool, and the image stands for the pool at its end.
    ensures fed { (profile : Profile) (name : List ℕ) (old new : List Deed) (calls calls' : List StreamCall) (s : PlainPool) → KeepsPool name old s
        → FeedsImage profile name old new calls calls' (Ok (tt {0})) → (asks : List Exchange) × (ending : Carried) × IsFed profile asks calls calls' ending × IsLivedOn name new s asks }
    ensures played { (profile : Profile) (name : List ℕ) (old new : List Deed) (calls calls' : List StreamCall) (s : PlainPool) → KeepsPool name old s
        → PlaysImage profile name old new calls calls' (Ok (tt {0})) → (asks : List Exchange) × (played : ℕ) × (ended : Result (Unit {0}) Stopped)
        × Makes calls calls' (λ did. PlaysScript profile asks did played ended) × IsLivedOn name new s asks }
    ensures served { (name : List ℕ) (wanted : ℕ) (old new : List Deed) (s : PlainPool) → KeepsPool name old s
        → ServesImage name wanted old new (Ok (tt {0})) → (asks : List Exchange) × IsLivedOn name new s asks }
{
    fresh_image_stands_for_the_empty_pool();
}
