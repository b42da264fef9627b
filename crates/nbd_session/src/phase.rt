//! Where a session stands.

ghost use Rattle.std.specs.Prelude.{◌≡◌, ◌≤◌};
ghost use Rattle.nbd_session.specs.Session.{has_clones, has_older, is_at_work, is_extended, is_to_flush, limit_of, manner_in, older_in, writes_through};

use nbd_wire::{COMMAND_FLUSH, Request};
use tp_model::DevId;

/// What a session offers its client.
#[derive(Clone, Copy, Debug, PartialEq, Eq)]
pub enum Profile {
    /// One connection for each client, requests of at most 1 MiB, and no volume for the empty name.
    Strict,
    /// Several connections of one client, TRIM and WRITE_ZEROES of any length, structured replies to READ, and BLOCK_STATUS. Its WRITEs, TRIMs and
    /// WRITE_ZEROES with FUA are kept apart: each is made, and then flushed, but for long ones.
    Extended,
    /// The same, and this volume for the empty name; none where the number is over 16777215.
    WithDefault { volume: u32 },
    /// The same, none where the number is over 8388607; and to each connection that asks for it a clone of a volume, which goes with it. Ids from 8388608 on are
    /// those of clones then, and no names.
    Cloning { volume: u32 },
    /// As `WithDefault` or, with `has_clones`, as `Cloning`; and each WRITE, TRIM and WRITE_ZEROES is
    /// made as with FUA, so that a crash of the server loses none that was answered.
    WritingThrough { volume: u32, has_clones: bool },
}

impl Profile {
    ghost use Rattle.std.specs.Prelude.{◌≡◌, false, true};
    ghost use Rattle.nbd_session.specs.Session.{below, default_of, has_clones, is_extended, writes_through};

    /// That of an extended session, with a volume for the empty name, if there is to be one.
    pub fn extended(default: Option<DevId>) -> Profile
        ensures extended { is_extended result ≡ true }
        ensures buffered { writes_through result ≡ false }
        ensures clones { has_clones result ≡ false }
        ensures default { default_of result ≡ default }
    {
        match default {
            None => Profile::Extended,
            Some(volume) => Profile::WithDefault {
                volume: volume.number(),
            },
        }
    }

    /// That of an extended session which has clones, with a volume for the empty name, if there is to be one and it is none of a clone.
    pub fn cloning(default: Option<DevId>) -> Profile
        ensures extended { is_extended result ≡ true }
        ensures buffered { writes_through result ≡ false }
        ensures clones { has_clones result ≡ true }
        ensures default { default_of result ≡ below 8388608 default }
    {
        match default {
            None => Profile::Cloning { volume: NO_VOLUME },
            Some(volume) => Profile::Cloning {
                volume: volume.number(),
            },
        }
    }

    /// Returns this profile with each WRITE, TRIM and WRITE_ZEROES made as with FUA. A strict profile
    /// stays as it is.
    pub fn writing_through(self) -> Profile
        ensures through { writes_through result ≡ is_extended self }
        ensures extended { is_extended result ≡ is_extended self }
        ensures clones { has_clones result ≡ has_clones self }
        ensures default { default_of result ≡ default_of self }
    {
        match self {
            Profile::Strict => Profile::Strict,
            Profile::Extended => through(NO_VOLUME, false),
            Profile::WithDefault { volume } => through(volume, false),
            Profile::Cloning { volume } => through(volume, true),
            Profile::WritingThrough { volume, has_clones } => through(volume, has_clones),
        }
    }
}

/// Returns a profile that writes through.
fn through(volume: u32, has_clones: bool) -> Profile
    ensures { result ≡ Profile.WritingThrough volume has_clones }
{
    Profile::WritingThrough { volume, has_clones }
}

/// The least number that is the id of no volume.
pub(crate) const NO_VOLUME: u32 = 16_777_216;

/// The least id that a clone may have, where there are clones.
pub const FIRST_CLONE: u32 = 8_388_608;

/// How many ids from that one on may be those of clones: no more sessions have one.
pub const MOST_CLONES: u32 = 64;

/// What a client asked to be told of by SET_META_CONTEXT.
#[derive(Clone, Copy, Debug, PartialEq, Eq)]
pub enum ContextOf {
    /// No volume.
    Nothing,
    /// The volume of this number.
    Volume(u32),
    /// The clones of the volume of this number.
    Clones(u32),
}

/// What a session and its client have agreed on so far.
#[derive(Clone, Copy, Debug, PartialEq, Eq)]
pub struct Terms {
    /// Whether the client wants no padding zeroes.
    pub no_zeroes: bool,
    /// What the session offers.
    pub profile: Profile,
    /// Whether READs are to be answered in chunks, as the client has asked for.
    pub is_structured: bool,
    /// The volume, or the clones, whose block status the client asked for.
    pub context: ContextOf,
    /// Whether it wants to be told where they have data.
    pub tells_blocks: bool,
    /// The number of the older volume of the context `thinpool:since:ID`, if that was chosen: the session holds it. A number over 16777215 stands for no volume.
    pub since: u32,
}

/// How requests are taken and answered in transmission.
#[derive(Clone, Copy, Debug, PartialEq, Eq)]
pub struct Manner {
    /// Whether a request that has no data may be longer than 1 MiB.
    pub is_extended: bool,
    /// Whether READs are answered in chunks.
    pub is_structured: bool,
    /// Whether BLOCK_STATUS is answered where the volume has data.
    pub tells_blocks: bool,
    /// The older volume from which BLOCK_STATUS is answered where the volume may differ: the session holds it. None where the number is over 16777215.
    pub since: u32,
    /// Whether the volume is a clone, which goes with the session.
    pub is_clone: bool,
    /// Whether each WRITE, TRIM and WRITE_ZEROES is made as with FUA.
    pub writes_through: bool,
}

/// What a session in transmission does next.
#[derive(Clone, Copy, Debug, PartialEq, Eq)]
pub enum Course {
    /// It takes a request.
    Listens { manner: Manner },
    /// It works on a request, of which `rest` is left: the next part of a long one, or the FLUSH of one that is kept apart.
    Works { manner: Manner, rest: Request },
}

/// What the client may send next.
#[derive(Clone, Copy, Debug, PartialEq, Eq)]
pub enum Phase {
    /// The client flags.
    Flags {
        profile: Profile,
    },
    /// Options.
    Options {
        terms: Terms,
    },
    /// Requests of a volume, which the session holds, and whose size in bytes was told when transmission began.
    Transmission {
        volume: DevId,
        size: u64,
        course: Course,
    },
    /// Nothing: the connection is over.
    Ended,
}

/// The number of the older volume that a session holds. A number over 16777215 stands for none.
pub(crate) fn older_in(phase: &Phase) -> u32
    ensures { result ≡ older_in phase.now }
{
    match phase {
        Phase::Options { terms } => terms.since,
        Phase::Transmission { course, .. } => match course {
            Course::Works { manner, .. } => manner.since,
            Course::Listens { manner } => manner.since,
        },
        Phase::Flags { .. } | Phase::Ended => NO_VOLUME,
    }
}

/// Whether the volume of a session in transmission is a clone.
pub(crate) fn is_of_clone(course: Course) -> bool
    ensures { result ≡ (manner_in course).is_clone }
{
    match course {
        Course::Listens { manner } => manner.is_clone,
        Course::Works { manner, .. } => manner.is_clone,
    }
}

/// Whether a session is extended.
pub(crate) fn is_extended(profile: Profile) -> bool
    ensures { result ≡ is_extended profile }
{
    !matches!(profile, Profile::Strict)
}

/// Whether its client may have a clone of a volume.
pub fn has_clones(profile: &Profile) -> bool
    ensures { result ≡ has_clones profile.now }
{
    match profile {
        Profile::Cloning { .. } => true,
        Profile::WritingThrough { has_clones, .. } => *has_clones,
        _ => false,
    }
}

/// Returns whether each WRITE, TRIM and WRITE_ZEROES is made as with FUA.
pub(crate) fn writes_through(profile: Profile) -> bool
    ensures { result ≡ writes_through profile }
{
    matches!(profile, Profile::WritingThrough { .. })
}

/// The first number that names no volume.
pub(crate) fn limit_of(profile: Profile) -> u32
    ensures value { result ≡ limit_of profile }
    ensures most { result ≤ 16777216 }
{
    match profile {
        Profile::Cloning { .. } => FIRST_CLONE,
        Profile::WritingThrough { has_clones, .. } => {
            if has_clones { FIRST_CLONE } else { NO_VOLUME }
        }
        _ => NO_VOLUME,
    }
}

/// Whether a session has a request of which parts are left. It takes no bytes until they are made.
pub fn is_at_work(phase: Phase) -> bool
    ensures { result ≡ is_at_work phase }
{
    matches!(
        phase,
        Phase::Transmission {
            course: Course::Works { .. },
            ..
        }
    )
}

/// Whether nothing but a FLUSH is left of its request.
pub fn is_to_flush(phase: Phase) -> bool
    ensures { result ≡ is_to_flush phase }
{
    match phase {
        Phase::Transmission { course, .. } => match course {
            Course::Works { rest, .. } => rest.kind == COMMAND_FLUSH,
            Course::Listens { .. } => false,
        },
        _ => false,
    }
}

/// Whether it is told since an older volume, at which its BLOCK_STATUSes look too.
pub fn has_older(phase: Phase) -> bool
    ensures { result ≡ has_older phase }
{
    match phase {
        Phase::Transmission { course, .. } => match course {
            Course::Works { manner, .. } => manner.since < NO_VOLUME,
            Course::Listens { manner } => manner.since < NO_VOLUME,
        },
        _ => false,
    }
}
