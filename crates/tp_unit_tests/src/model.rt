use std::alloc::{AllocError, Global};
use std::test::Fail;
use tp_model::{DevId, Geometry, Mb, Mode, NbdError, Pb, Refusal, Vb};
use tp_msg::{PoolStatus, print_status};

/// Sectors of a block, blocks of a volume, metadata blocks and data blocks that a pool may have.
const WITHIN: [[u64; 4]; 4] = [
    [128, 1, 1032, 1],
    [2048, 16_777_216, 65_536, 1_048_576],
    [256, 1, 1032, 1024],
    [128, 1, 1034, 1025],
];

/// And some that no pool has.
const OUTSIDE: [[u64; 4]; 12] = [
    [0, 1, 1032, 1],
    [127, 1, 1032, 1],
    [129, 1, 1032, 1],
    [2176, 1, 1032, 1],
    [128, 0, 1032, 1],
    [128, 16_777_217, 1032, 1],
    [128, 1, 1031, 1],
    [128, 1, 1033, 1025],
    [128, 1, 65_537, 1],
    [128, 1, 1032, 0],
    [128, 1, 65_536, 1_048_577],
    [128, 1, u64::MAX, 1],
];

/// The first of these sizes of which no geometry is made, or at which another refusal is given than this one.
fn first_other(sizes: &[[u64; 4]], wanted: Option<Refusal>) -> Option<[u64; 4]> {
    for [block, volume, metadata, data] in sizes {
        let made = Geometry::new(*block, *volume, *metadata, *data);
        if made.err() != wanted {
            return Some([*block, *volume, *metadata, *data]);
        }
    }
    None
}

#[test]
fn geometries(rt: HostRuntime) -> Result<(), Fail> {
    let geometry = Geometry::new(128, 16, 2048, 4)?;
    let counts = [
        geometry.metadata_count_blocks(),
        geometry.data_count_blocks(),
        geometry.area_blocks(),
        geometry.fixed_part(),
    ];
    let sectors = [
        geometry.data_sector(Pb::new(0)),
        geometry.data_sector(Pb::new(3)),
        geometry.image_sectors(),
        geometry.volume_sectors(),
        Mb::new(8).first_sector(),
    ];
    assert!(rt; (counts, sectors) == ([2, 1, 3, 8], [16_384, 16_768, 16_896, 2048, 64]));
    let within = first_other(&WITHIN, None);
    let outside = first_other(&OUTSIDE, Some(Refusal::BadGeometry));
    assert!(rt; (within, outside) == (None, None));
    Ok(())
}

#[test]
fn ids_at_their_limit(rt: HostRuntime) {
    let ids = [
        DevId::checked(0),
        DevId::checked(16_777_215),
        DevId::checked(16_777_216),
    ];
    let told = (Vb::new(7).number(), DevId::new(2) < DevId::new(10));
    let wanted = [
        Ok(DevId::new(0)),
        Ok(DevId::new(16_777_215)),
        Err(Refusal::BadDeviceId),
    ];
    assert!(rt; (ids, told) == (wanted, (7, true)));
}

const REFUSALS: [(Refusal, &str, u32); 29] = [
    (Refusal::BadGeometry, "1 BadGeometry", 5),
    (Refusal::Damaged, "2 Damaged", 5),
    (Refusal::NotAPool, "3 NotAPool", 5),
    (Refusal::BadVersion, "4 BadVersion", 5),
    (Refusal::Fault, "5 Fault", 5),
    (Refusal::Memory, "10 Memory", 5),
    (Refusal::BadSyntax, "11 BadSyntax", 5),
    (Refusal::UnknownMessage, "12 UnknownMessage", 5),
    (Refusal::BadDeviceId, "13 BadDeviceId", 5),
    (Refusal::Exists, "14 Exists", 5),
    (Refusal::NoSuchDevice, "15 NoSuchDevice", 5),
    (Refusal::Busy, "16 Busy", 5),
    (Refusal::StaleTransactionId, "17 StaleTransactionId", 5),
    (Refusal::NoMetadataSpace, "18 NoMetadataSpace", 28),
    (Refusal::TooManyDevices, "19 TooManyDevices", 5),
    (Refusal::ReadOnly, "20 ReadOnly", 1),
    (Refusal::Failed, "21 Failed", 5),
    (Refusal::SessionInUse, "22 SessionInUse", 5),
    (Refusal::NoSession, "23 NoSession", 5),
    (Refusal::NoDataSpace, "24 NoDataSpace", 28),
    (Refusal::BadSize, "25 BadSize", 5),
    (Refusal::BadSuper, "30 BadSuper", 5),
    (Refusal::BadNode, "31 BadNode", 5),
    (Refusal::BadOrder, "32 BadOrder", 5),
    (Refusal::BadCount, "33 BadCount", 5),
    (Refusal::OutOfPlace, "34 OutOfPlace", 5),
    (Refusal::HalfEmpty, "35 HalfEmpty", 5),
    (Refusal::BadMapped, "36 BadMapped", 5),
    (Refusal::BadRecordSize, "37 BadRecordSize", 5),
];

/// Whether this text was made.
fn is_made(made: Result<String, AllocError>, text: &str) -> bool {
    match made {
        Ok(made) => made.as_str() == text,
        Err(_) => false,
    }
}

/// The number of the first refusal that is printed as another text, or has another number, name or error on the wire.
fn first_other_refusal(alloc: Global) -> Option<u8> {
    for (refusal, text, code) in &REFUSALS {
        let number = refusal.number();
        if !is_made(format!(in alloc; "{refusal}"), text)
            || !is_made(format!(in alloc; "{number} {refusal:?}"), text)
            || refusal.nbd_error().code() != *code
        {
            return Some(number);
        }
    }
    None
}

#[test]
fn refusals_have_a_number_a_name_and_an_error(rt: HostRuntime) {
    let told = (first_other_refusal(rt.alloc()), NbdError::Invalid.code());
    assert!(rt; told == (None, 22));
}

/// The longest status line.
#[test]
fn line_of_a_held_root(rt: HostRuntime) {
    let status = PoolStatus {
        transaction_id: u64::MAX,
        used_metadata: u32::MAX,
        metadata_blocks: u32::MAX,
        used_data: u32::MAX,
        data_blocks: u32::MAX,
        mode: Mode::Writable,
        needs_check: true,
        held_root: u32::MAX,
    };
    let mut out = [0; 192];
    let length = print_status(&status, &mut out);
    let (line, _) = out.split_at(length);
    assert!(rt;
        line == b"18446744073709551615 4294967295/4294967295 4294967295/4294967295 4294967295 out_of_data_space no_discard_passdown error_if_no_space needs_check 512".as_slice()
    );
}
