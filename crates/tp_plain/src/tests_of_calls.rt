//! The tests of each call, in their order, over what they look at.
ghost use Rattle.std.specs.Prelude.{◌≡◌, ℕ};
ghost use Rattle.tp_model.specs.Pool.{PlainPool};
ghost use Rattle.tp_model.specs.Calls as calls;
ghost use Rattle.tp_plain.specs.Tests.{Asks, IsTrueOf, request_refusal, message_refusal, creation_refusal, deletion_refusal, growth_refusal, held_refusal, read_refusal, release_refusal, reserve_refusal, refusal_by};

use tp_model::{Mode, Refusal};

/// A call, by what its tests look at.
#[derive(Clone, Copy, Debug)]
pub enum Asked {
    Read,
    Write { sectors: u64 },
    Trim { sectors: u64 },
    WriteZeroes { sectors: u64 },
    Flush,
    CreateThin,
    CreateSnap { origin_exists: bool },
    Delete { is_held: bool },
    SetTransactionId { current: u64 },
    Grow { is_held: bool, blocks: u64 },
    Hold,
    VolumeBlocks,
    Walk,
    HeldRead,
    ReserveMetadataSnap,
    ReleaseMetadataSnap,
}

/// What the tests look at of a pool, and of the call's volume in it.
#[derive(Clone, Copy, Debug)]
pub struct Facts {
    pub mode: Mode,
    pub exists: bool,
    /// The blocks of the volume, 0 where there is none.
    pub blocks: u64,
    pub devices: u32,
    pub free_metadata: u32,
    pub has_data_room: bool,
    pub transaction_id: u64,
    /// A metadata root is held, and in its copy there is a volume of this id.
    pub is_held: bool,
    pub has_copy: bool,
}

// Of a request that wants so many free metadata blocks.
fn request_refusal_of(facts: &Facts, sectors: u64, least: u32, has_room: bool) -> Option<Refusal>
    ensures { result ≡ request_refusal facts.now sectors least has_room }
{
    match facts.mode {
        Mode::Failed => return Some(Refusal::Failed),
        _ if !facts.exists => return Some(Refusal::NoSuchDevice),
        Mode::ReadOnly => return Some(Refusal::ReadOnly),
        Mode::Writable => {}
    }
    if sectors > 0 && facts.free_metadata < least {
        Some(Refusal::NoMetadataSpace)
    } else if has_room {
        None
    } else {
        Some(Refusal::NoDataSpace)
    }
}

// Of a message, whose own tests come after those of the mode.
fn message_refusal_of(mode: Mode, own: Option<Refusal>) -> Option<Refusal>
    ensures { result ≡ message_refusal mode own }
{
    match mode {
        Mode::Failed => Some(Refusal::Failed),
        Mode::ReadOnly => Some(Refusal::ReadOnly),
        Mode::Writable => own,
    }
}

// Of a message that makes a volume.
fn creation_refusal_of(facts: &Facts) -> Option<Refusal>
    ensures { result ≡ creation_refusal facts.now }
{
    if facts.exists {
        Some(Refusal::Exists)
    } else if facts.devices >= 65_536 {
        Some(Refusal::TooManyDevices)
    } else if facts.free_metadata < 512 {
        Some(Refusal::NoMetadataSpace)
    } else {
        None
    }
}

// Of the removal of a volume.
fn deletion_refusal_of(facts: &Facts, is_held: bool) -> Option<Refusal>
    ensures { result ≡ deletion_refusal facts.now is_held }
{
    if !facts.exists {
        Some(Refusal::NoSuchDevice)
    } else if is_held {
        Some(Refusal::Busy)
    } else if facts.is_held && facts.free_metadata < 256 {
        Some(Refusal::NoMetadataSpace)
    } else {
        None
    }
}

// Of a message that gives a volume more blocks.
fn growth_refusal_of(facts: &Facts, is_held: bool, blocks: u64) -> Option<Refusal>
    ensures { result ≡ growth_refusal facts.now is_held blocks }
{
    if !facts.exists {
        Some(Refusal::NoSuchDevice)
    } else if is_held {
        Some(Refusal::Busy)
    } else if blocks < facts.blocks || blocks > 16_777_216 {
        Some(Refusal::BadSize)
    } else if facts.free_metadata < 512 {
        Some(Refusal::NoMetadataSpace)
    } else {
        None
    }
}

// Of a call that only a failed pool refuses, and one where there is no such volume.
fn read_refusal_of(facts: &Facts) -> Option<Refusal>
    ensures { result ≡ read_refusal facts.now }
{
    match facts.mode {
        Mode::Failed => Some(Refusal::Failed),
        _ if facts.exists => None,
        _ => Some(Refusal::NoSuchDevice),
    }
}

// Of a read of the held copy.
fn held_refusal_of(facts: &Facts) -> Option<Refusal>
    ensures { result ≡ held_refusal facts.now }
{
    match facts.mode {
        Mode::Failed => Some(Refusal::Failed),
        _ if !facts.is_held => Some(Refusal::NoHeldRoot),
        _ if facts.has_copy => None,
        _ => Some(Refusal::NoSuchDevice),
    }
}

// Of the message that holds a root.
fn reserve_refusal_of(facts: &Facts) -> Option<Refusal>
    ensures { result ≡ reserve_refusal facts.now }
{
    if facts.is_held {
        Some(Refusal::HeldRootExists)
    } else if facts.free_metadata < 512 {
        Some(Refusal::NoMetadataSpace)
    } else {
        None
    }
}

// Of the one that gives it up.
fn release_refusal_of(facts: &Facts) -> Option<Refusal>
    ensures { result ≡ release_refusal facts.now }
{
    if facts.is_held {
        None
    } else {
        Some(Refusal::NoHeldRoot)
    }
}

fn refusal_of_facts(facts: &Facts, asked: Asked) -> Option<Refusal>
    ensures { result ≡ refusal_by facts.now asked }
{
    match asked {
        Asked::Read | Asked::Hold | Asked::VolumeBlocks | Asked::Walk => read_refusal_of(facts),
        Asked::Write { sectors } | Asked::WriteZeroes { sectors } => {
            request_refusal_of(facts, sectors, 512, facts.has_data_room)
        }
        Asked::Trim { sectors } => request_refusal_of(facts, sectors, 256, true),
        Asked::Flush => match facts.mode {
            Mode::Failed => Some(Refusal::Failed),
            _ => None,
        },
        Asked::CreateThin => message_refusal_of(facts.mode, creation_refusal_of(facts)),
        Asked::CreateSnap { origin_exists } => {
            let own = if origin_exists {
                creation_refusal_of(facts)
            } else {
                Some(Refusal::NoSuchDevice)
            };
            message_refusal_of(facts.mode, own)
        }
        Asked::Delete { is_held } => {
            message_refusal_of(facts.mode, deletion_refusal_of(facts, is_held))
        }
        Asked::Grow { is_held, blocks } => {
            message_refusal_of(facts.mode, growth_refusal_of(facts, is_held, blocks))
        }
        Asked::HeldRead => held_refusal_of(facts),
        Asked::ReserveMetadataSnap => message_refusal_of(facts.mode, reserve_refusal_of(facts)),
        Asked::ReleaseMetadataSnap => message_refusal_of(facts.mode, release_refusal_of(facts)),
        Asked::SetTransactionId { current } => {
            let own = if current == facts.transaction_id {
                None
            } else {
                Some(Refusal::StaleTransactionId)
            };
            message_refusal_of(facts.mode, own)
        }
    }
}

/// The refusal of the first test that fails, for a pool of which the facts are true.
pub fn refusal_of(facts: &Facts, asked: Asked) -> Option<Refusal>
    ensures { (p : PlainPool) (id : ℕ) (call : calls.Call) → Asks p id asked call → IsTrueOf facts.now p id call → result ≡ calls.refusal_of p call }
{
    refusal_of_facts(facts, asked)
}
