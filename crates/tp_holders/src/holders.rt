//! Who holds which volume.
ghost use Rattle.std.specs.Prelude.{◌≡◌, ◌<◌, ℕ, MatchOption, nat_lt};
ghost use Rattle.tp_model.specs.Pool.{hold_count};
ghost use Rattle.tp_holders.specs.Holders.{IsLastOf, LeftTold, blocks_held, holds_of};
ghost use Rattle.tp_model.specs.Calls.{released};
ghost use Rattle.arrayvec.specs.ArrayVec.{array_vec_len};

use arrayvec::ArrayVec;
use std::marker::Model;
use tp_model::DevId;

/// At most this many holds stand at once: 64 clients, each of which holds the volume that it is served and one that it compares that with.
pub const MOST_HOLDERS: usize = 128;

/// A session that holds a volume, with the blocks that the volume has as long as it is held.
#[derive(Clone, Copy, Debug, PartialEq, Eq)]
pub struct Holder {
    volume: DevId,
    blocks: u32,
}

impl Model for Holder {
    ghost use Rattle.tp_holders.specs.Holders as holders;

    ghost Value = { holders.Holding };

    ghost view = { λ h. record { volume = h.volume; blocks = h.blocks } };

    ghost inverse = { λ h. record { volume = h.volume; blocks = h.blocks } };
}

impl Holder {
    pub fn of(volume: DevId, blocks: u32) -> Holder
        ensures { result ≡ record { volume = volume; blocks = blocks } }
    {
        Holder { volume, blocks }
    }

    fn volume(&self) -> DevId
        ensures { result ≡ self.now.volume }
    {
        self.volume
    }

    fn blocks(&self) -> u32
        ensures { result ≡ self.now.blocks }
    {
        self.blocks
    }
}

impl Default for Holder {
    fn default() -> Holder {
        Holder::of(DevId::new(0), 0)
    }
}

/// The sessions that hold volumes.
pub type Holders = ArrayVec<Holder, MOST_HOLDERS>;

/// How many blocks the volume has, where a session holds it.
pub fn blocks_held(holders: &[Holder], volume: DevId) -> Option<u32>
    ensures { MatchOption result
        (hold_count (holds_of holders.now) volume ≡ 0)
        (λ blocks. (0 < hold_count (holds_of holders.now) volume) × (blocks ≡ blocks_held holders.now volume)) }
{
    for i in 0..holders.len() {
        if holders[i].volume() == volume {
            return Some(holders[i].blocks());
        }
    }
    None
}

/// Whether a session holds the volume.
pub fn is_held(holders: &[Holder], volume: DevId) -> bool
    ensures { result ≡ nat_lt 0 (hold_count (holds_of holders.now) volume) }
{
    blocks_held(holders, volume).is_some()
}

/// One of the sessions that hold the volume no longer does. Those who are left hold as many blocks as before.
pub fn release(holders: &mut Holders, volume: DevId)
    requires { 0 < hold_count (holds_of holders.old.items) volume }
    ensures holds { holds_of holders.new.items ≡ released (holds_of holders.old.items) volume }
    ensures blocks { LeftTold holders.old.items holders.new.items }
    ensures fewer { array_vec_len holders.new < array_vec_len holders.old }
{
    let place = place_of(holders, volume);
    holders.remove(place);
}

// The last place of the volume: what the first one tells stays so.
fn place_of(holders: &[Holder], volume: DevId) -> usize
    requires { 0 < hold_count (holds_of holders.now) volume }
    ensures { IsLastOf holders.now volume result }
{
    let mut place = 0;
    for i in 0..holders.len() {
        if holders[i].volume() == volume {
            place = i;
        }
    }
    place
}
