use tp_model::{Mode, NbdError, Refusal};
use tp_plain::{
    Asked, Change, Facts, Request, Slot, form_error, is_exclusive, need, refusal_of, used,
};

#[test]
fn room_of_requests(rt: HostRuntime) {
    let slots = [(0, 0, 7), (0, 1, 8), (1, 0, 7)].map(|(volume, block, label)| Slot {
        volume,
        block,
        label,
    });
    let labels = [Some(7), Some(8), None];
    let exclusive = [
        is_exclusive(&slots, 0, 0, Some(7)),
        is_exclusive(&slots, 0, 1, Some(8)),
    ];
    let write = |sector, count| Change::Write { sector, count };
    let zeroes = |no_hole| Change::WriteZeroes {
        sector: 1,
        count: 383,
        no_hole,
    };
    let trim = Change::Trim {
        sector: 0,
        count: 384,
    };
    let needs = [
        need(128, &[], 0, &[None; 16], write(127, 2)),
        need(128, &[], 0, &[None; 16], write(0, 2048)),
        need(128, &slots, 0, &labels, write(0, 256)),
        need(128, &slots, 0, &labels, zeroes(false)),
        need(128, &slots, 0, &labels, zeroes(true)),
        need(128, &slots, 0, &labels, trim),
    ];
    assert!(rt; (used(&[7, 8, 7]), exclusive, needs) == (2, [false, true], [2, 16, 1, 1, 2, 0]));
}

/// The kind, the flags, the offset and the length of requests, and their error.
const REQUESTS: [((u16, u16, u64, u32), Option<NbdError>); 10] = [
    ((1, 0, 511, 512), Some(NbdError::Invalid)),
    ((1, 0, 1_048_576, 512), Some(NbdError::NoSpace)),
    ((0, 0, 1_048_576, 512), Some(NbdError::Invalid)),
    ((0, 0, 1_048_576, 0), None),
    ((5, 0, 0, 0), Some(NbdError::Invalid)),
    ((1, 2, 0, 0), Some(NbdError::Invalid)),
    ((6, 2, 0, 512), None),
    ((0, 1, 0, 0), None),
    ((3, 0, 0, 512), Some(NbdError::Invalid)),
    ((4, 0, u64::MAX - 511, 512), Some(NbdError::Invalid)),
];

/// The first of these requests that has another error.
fn first_other_request() -> Option<usize> {
    for (i, ((kind, flags, offset, bytes), error)) in REQUESTS.iter().enumerate() {
        let request = Request {
            kind: *kind,
            flags: *flags,
            offset: *offset,
            bytes: *bytes,
        };
        if form_error(1_048_576, &request) != *error {
            return Some(i);
        }
    }
    None
}

#[test]
fn errors_of_requests(rt: HostRuntime) {
    assert!(rt; first_other_request() == None);
}

const FACTS: Facts = Facts {
    mode: Mode::Writable,
    exists: true,
    blocks: 4,
    devices: 1,
    free_metadata: 511,
    has_data_room: false,
    transaction_id: 7,
    is_held: false,
    has_copy: false,
};

const READ_ONLY: Facts = Facts {
    mode: Mode::ReadOnly,
    ..FACTS
};

const FAILED: Facts = Facts {
    mode: Mode::Failed,
    ..FACTS
};

const ABSENT: Facts = Facts {
    exists: false,
    ..FACTS
};

const ROOMY: Facts = Facts {
    free_metadata: 512,
    ..FACTS
};

/// A root is held, without a copy of the volume.
const HELD: Facts = Facts {
    is_held: true,
    ..FACTS
};

const HELD_AND_FULL: Facts = Facts {
    free_metadata: 255,
    ..HELD
};

const COPIED: Facts = Facts {
    has_copy: true,
    ..HELD
};

const WRITE: Asked = Asked::Write { sectors: 1 };

const DELETE_HELD: Asked = Asked::Delete { is_held: true };

/// What is known, what is asked, and the refusal.
type Case = (Facts, Asked, Option<Refusal>);

/// The first of these cases that has another refusal.
fn first_other_case(cases: &[Case]) -> Option<usize> {
    for (i, (facts, asked, refusal)) in cases.iter().enumerate() {
        if refusal_of(facts, *asked) != *refusal {
            return Some(i);
        }
    }
    None
}

const NO_ORIGIN: Asked = Asked::CreateSnap {
    origin_exists: false,
};

const STALE: Asked = Asked::SetTransactionId { current: 6 };

const CURRENT: Asked = Asked::SetTransactionId { current: 7 };

const CASES: [Case; 18] = [
    (FACTS, NO_ORIGIN, Some(Refusal::NoSuchDevice)),
    (FACTS, STALE, Some(Refusal::StaleTransactionId)),
    (FACTS, CURRENT, None),
    (FACTS, WRITE, Some(Refusal::NoMetadataSpace)),
    (FACTS, Asked::Trim { sectors: 1 }, None),
    (FACTS, Asked::CreateThin, Some(Refusal::Exists)),
    (ABSENT, Asked::CreateThin, Some(Refusal::NoMetadataSpace)),
    (FACTS, DELETE_HELD, Some(Refusal::Busy)),
    (READ_ONLY, WRITE, Some(Refusal::ReadOnly)),
    (READ_ONLY, DELETE_HELD, Some(Refusal::ReadOnly)),
    (FAILED, Asked::Read, Some(Refusal::Failed)),
    (FACTS, Asked::Flush, None),
    (FACTS, Asked::Hold, None),
    (READ_ONLY, Asked::VolumeBlocks, None),
    (FAILED, Asked::VolumeBlocks, Some(Refusal::Failed)),
    (ABSENT, Asked::VolumeBlocks, Some(Refusal::NoSuchDevice)),
    (READ_ONLY, Asked::Walk, None),
    (ABSENT, Asked::Walk, Some(Refusal::NoSuchDevice)),
];

/// Of a volume that nobody holds, the growth to the blocks that it has, and to fewer, the most that it may have, and more.
const GROW: Asked = Asked::Grow {
    is_held: false,
    blocks: 4,
};

const GROW_LESS: Asked = Asked::Grow {
    is_held: false,
    blocks: 3,
};

const GROW_MOST: Asked = Asked::Grow {
    is_held: false,
    blocks: 16_777_216,
};

const GROW_OVER: Asked = Asked::Grow {
    is_held: false,
    blocks: 16_777_217,
};

/// Of a volume that is held, the growth to one block.
const GROW_HELD: Asked = Asked::Grow {
    is_held: true,
    blocks: 1,
};

const GROWTHS: [Case; 10] = [
    (FAILED, GROW_HELD, Some(Refusal::Failed)),
    (READ_ONLY, GROW_HELD, Some(Refusal::ReadOnly)),
    (ABSENT, GROW_HELD, Some(Refusal::NoSuchDevice)),
    (FACTS, GROW_HELD, Some(Refusal::Busy)),
    (FACTS, GROW_LESS, Some(Refusal::BadSize)),
    (FACTS, GROW_OVER, Some(Refusal::BadSize)),
    (FACTS, GROW, Some(Refusal::NoMetadataSpace)),
    (ROOMY, GROW_LESS, Some(Refusal::BadSize)),
    (ROOMY, GROW, None),
    (ROOMY, GROW_MOST, None),
];

const DELETE: Asked = Asked::Delete { is_held: false };

const RESERVE: Asked = Asked::ReserveMetadataSnap;

const RELEASE: Asked = Asked::ReleaseMetadataSnap;

const HELD_ROOTS: [Case; 15] = [
    (FAILED, Asked::HeldRead, Some(Refusal::Failed)),
    (READ_ONLY, Asked::HeldRead, Some(Refusal::NoHeldRoot)),
    (HELD, Asked::HeldRead, Some(Refusal::NoSuchDevice)),
    (COPIED, Asked::HeldRead, None),
    (FAILED, RESERVE, Some(Refusal::Failed)),
    (READ_ONLY, RESERVE, Some(Refusal::ReadOnly)),
    (HELD, RESERVE, Some(Refusal::HeldRootExists)),
    (FACTS, RESERVE, Some(Refusal::NoMetadataSpace)),
    (ROOMY, RESERVE, None),
    (READ_ONLY, RELEASE, Some(Refusal::ReadOnly)),
    (ROOMY, RELEASE, Some(Refusal::NoHeldRoot)),
    (HELD_AND_FULL, RELEASE, None),
    (HELD, DELETE, None),
    (HELD_AND_FULL, DELETE, Some(Refusal::NoMetadataSpace)),
    (HELD_AND_FULL, DELETE_HELD, Some(Refusal::Busy)),
];

#[test]
fn refusals_come_in_their_order(rt: HostRuntime) {
    let others = [
        first_other_case(&CASES),
        first_other_case(&GROWTHS),
        first_other_case(&HELD_ROOTS),
    ];
    assert!(rt; others == [None; 3]);
}
