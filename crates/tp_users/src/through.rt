//! A client that flushes nothing, and was offered a profile that writes through.
ghost use Rattle.tp_model.specs.Pool.{PlainPool};
ghost use Rattle.tp_hub.specs.Lives.{HubLife, IsHubLife};
ghost use Rattle.tp_users.specs.Through.{LosesNoAnswered};

use tp_hub::{an_answered_write_through_is_kept, hub_lives_are_plain};
use tp_model::Volumes;

/// No answered WRITE of a client whose profile writes through is lost in a crash.
///
/// A pool is opened from an image, and its hub serves clients until a crash at any moment. What the
/// crash left is opened again. In it each sector of a WRITE that was answered to such a client is
/// found, if the volume has it, or a newer one.
pub fn answered_writes_are_found<V: Volumes>()
    ensures { (image : V.view.Image) (s : PlainPool) (l : HubLife V V.view.Image) → V.view.stands_for image s → IsHubLife V.view image l → LosesNoAnswered V.view s l }
{
    hub_lives_are_plain::<V>();
    an_answered_write_through_is_kept::<V>();
}
