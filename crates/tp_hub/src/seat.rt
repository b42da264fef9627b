//! Who is at a number of a hub.

ghost use Rattle.std.specs.Prelude.{◌≡◌, ◌<◌, length};
ghost use Rattle.tp_hub.specs.Seats.{seat_at, seat_in, seat_of};

use crate::hub::SESSIONS;
use nbd_session::{Phase, Session};
use tp_model::DevId;

/// Who is at a number of a hub.
#[derive(Clone, Copy, Debug, PartialEq, Eq)]
pub enum Seat {
    /// Nobody.
    Free,
    /// A client that has no volume so far.
    Waits,
    /// A client that holds this volume.
    Holds(DevId),
}

/// Who is there whose session is in this phase.
fn seat_in(phase: Phase) -> Seat
    ensures { result ≡ seat_in phase }
{
    match phase {
        Phase::Flags { .. } => Seat::Waits,
        Phase::Options { .. } => Seat::Waits,
        Phase::Transmission { volume, .. } => Seat::Holds(volume),
        Phase::Ended => Seat::Free,
    }
}

/// Who is at a place.
fn seat_of(slot: &Option<Session>) -> Seat
    ensures { result ≡ seat_of slot.now }
{
    match slot {
        None => Seat::Free,
        Some(session) => seat_in(session.phase()),
    }
}

/// Who is at a number.
pub(crate) fn seat_at(sessions: &[Option<Session>; SESSIONS], number: u8) -> Seat
    requires count { length sessions.now ≡ 64 }
    requires number { number < 64 }
    ensures { result ≡ seat_at sessions.now number }
{
    seat_of(&sessions[usize::from(number)])
}
