use crate::samples::FRESH;
use std::test::Fail;
use tp_layout::{
    COUNTS_PER_BLOCK, Damaged, Entry, NodeView, Slot, SlotId, Superblock, TreeKind, Version,
    node_damage, read_counts, read_super, write_counts, write_node, write_super,
};
use tp_model::{Geometry, Mb, Refusal};

/// How the empty leaf of the device tree of that fresh pool, at block 8, begins.
const LEAF: [u8; 20] = [1, 0, 0, 0, 0, 0, 0, 0, 8, 0, 0, 0, 0, 0, 0, 0, 0, 0, 0, 0];

/// Bytes 12 to 55 of a slot that needs a check, with the greatest sequence, sizes and root.
const LATER: [u8; 44] = [
    1, 0, 0, 0, 255, 255, 255, 255, 255, 255, 255, 255, 8, 7, 6, 5, 4, 3, 2, 1, 0, 8, 0, 0, 0, 0,
    0, 1, 0, 0, 1, 0, 0, 0, 16, 0, 255, 255, 0, 0, 0, 0, 0, 0,
];

/// Blocks that a test changes: offset and byte.
type Change = (usize, u8);

/// Changes bytes of a sector or block.
fn change(bytes: &mut [u8], changes: &[Change]) {
    for (at, byte) in changes {
        if let Some(place) = bytes.get_mut(*at) {
            *place = *byte;
        }
    }
}

/// The sector of the fresh pool's superblock, with some bytes changed.
fn fresh_but(changes: &[Change]) -> [u8; 512] {
    let mut sector = [0; 512];
    sector[..56].copy_from_slice(&FRESH);
    change(&mut sector, changes);
    sector
}

/// Puts a field in its place behind the head, where a block has one.
fn put_field(block: &mut [u8; 4096], i: usize, field: u64) {
    if i < 504 {
        block[64 + 8 * i..72 + 8 * i].copy_from_slice(&field.to_le_bytes());
    }
}

/// A block whose head says this kind, level, own number and count, with these fields of 8 bytes from offset 64 on.
fn block_of(head: (u8, u8, u8, u8), fields: &[u64]) -> [u8; 4096] {
    let mut block = [0; 4096];
    change(
        &mut block,
        &[(0, head.0), (4, head.1), (8, head.2), (16, head.3)],
    );
    for i in 0..fields.len() {
        put_field(&mut block, i, fields[i]);
    }
    block
}

/// Whether a superblock is written as this sector and belongs into this slot, and whether it is read there as it is, and in the
/// other slot as a bad one.
fn is_stored(superblock: &Superblock, wanted: &[u8; 512], slot: SlotId) -> [bool; 4] {
    let mut sector = [7u8; 512];
    write_super(superblock, &mut sector);
    [
        sector == *wanted,
        superblock.slot() == slot,
        read_super(&sector, slot) == Slot::Good(*superblock),
        read_super(&sector, slot.other()) == Slot::Bad,
    ]
}

/// The superblock of that fresh pool, with this held root.
fn fresh(held_root: Mb) -> Result<Superblock, Refusal> {
    Ok(Superblock {
        version: Version::OwnSizes,
        needs_check: false,
        sequence: 0,
        transaction_id: 0,
        geometry: Geometry::new(128, 16, 2048, 4)?,
        root: Mb::new(8),
        held_root,
    })
}

/// A superblock of the first version that needs a check, with the greatest sequence, sizes and root.
fn later() -> Result<Superblock, Refusal> {
    Ok(Superblock {
        version: Version::OneSize,
        needs_check: true,
        sequence: u64::MAX,
        transaction_id: 0x0102_0304_0506_0708,
        geometry: Geometry::new(2048, 16_777_216, 65_536, 1_048_576)?,
        root: Mb::new(65_535),
        held_root: Mb::new(0),
    })
}

/// Its sector.
fn later_sector() -> [u8; 512] {
    let mut sector = fresh_but(&[(8, 1)]);
    sector[12..56].copy_from_slice(&LATER);
    sector
}

#[test]
fn superblocks_in_their_slots(rt: HostRuntime) -> Result<(), Fail> {
    let held = fresh_but(&[(56, 0xff), (57, 7)]);
    let stored = [
        is_stored(&fresh(Mb::new(0))?, &fresh_but(&[]), SlotId::Zero),
        is_stored(&later()?, &later_sector(), SlotId::One),
        is_stored(&fresh(Mb::new(2047))?, &held, SlotId::Zero),
    ];
    let (zero, one) = (SlotId::Zero, SlotId::One);
    let slots = (zero.other(), one.number(), (zero.sector(), one.sector()));
    assert!(rt; (stored, slots) == ([[true; 4]; 3], (one, 1, (0, 8))));
    Ok(())
}

/// What kind of slot this is, and whether a superblock in it needs a check.
fn kind_of(slot: &Slot) -> &'static str {
    match slot {
        Slot::Foreign => "foreign",
        Slot::Other => "other",
        Slot::Bad => "bad",
        Slot::Good(superblock) => {
            if superblock.needs_check {
                "good, needs a check"
            } else {
                "good"
            }
        }
    }
}

/// This byte is 0 in the fresh slot.
const NONE: Change = (511, 0);

/// Two changes of the fresh slot, the slot that it is read as, and its kind then.
const KINDS: [(Change, Change, SlotId, &str); 13] = [
    ((0, 0x53), NONE, SlotId::Zero, "foreign"),
    ((7, 0x4b), (8, 3), SlotId::Zero, "foreign"),
    ((8, 3), NONE, SlotId::Zero, "other"),
    ((8, 0), (12, 2), SlotId::One, "other"),
    ((11, 1), NONE, SlotId::Zero, "other"),
    (NONE, NONE, SlotId::One, "bad"),
    (NONE, NONE, SlotId::Zero, "good"),
    ((12, 1), NONE, SlotId::Zero, "good, needs a check"),
    // The least number of metadata blocks for 4 data blocks, and one fewer.
    ((40, 8), (41, 4), SlotId::Zero, "good"),
    ((40, 7), (41, 4), SlotId::Zero, "bad"),
    // A held root, which version 1 does not have.
    ((56, 8), NONE, SlotId::Zero, "good"),
    ((8, 1), NONE, SlotId::Zero, "good"),
    ((8, 1), (56, 8), SlotId::Zero, "bad"),
];

/// The changes of the first slot that is of another kind.
fn of_another_kind() -> Option<(Change, Change)> {
    for (first, second, slot, kind) in &KINDS {
        let read = read_super(&fresh_but(&[*first, *second]), *slot);
        if kind_of(&read) != *kind {
            return Some((*first, *second));
        }
    }
    None
}

/// Rules of a slot, and a change by which the fresh slot breaks each.
const BAD: [(&str, Change); 20] = [
    ("flag 1", (12, 2)),
    ("flag 31", (15, 0x80)),
    ("sequence 1", (16, 1)),
    ("129 sectors", (32, 0x81)),
    ("no sectors", (32, 0)),
    ("2432 sectors", (33, 9)),
    ("no virtual blocks", (36, 0)),
    ("too many virtual blocks", (39, 1)),
    ("no metadata blocks", (41, 0)),
    ("too many metadata blocks", (42, 1)),
    ("no data blocks", (44, 0)),
    ("too many data blocks", (46, 16)),
    ("root in the fixed part", (48, 7)),
    ("root behind the metadata", (49, 8)),
    ("root of eight bytes", (55, 1)),
    ("held root in the fixed part", (56, 7)),
    ("held root behind the metadata", (57, 8)),
    ("held root of eight bytes", (63, 1)),
    ("byte 64", (64, 1)),
    ("byte 511", (511, 1)),
];

/// The first rule that a slot may break and is not bad.
fn rule_without_effect() -> Option<&'static str> {
    for (rule, change) in &BAD {
        if read_super(&fresh_but(&[*change]), SlotId::Zero) != Slot::Bad {
            return Some(*rule);
        }
    }
    None
}

#[test]
fn kinds_of_slot(rt: HostRuntime) {
    let zeros = read_super(&[0; 512], SlotId::Zero);
    let others = (of_another_kind(), rule_without_effect());
    assert_eq!(rt; (zeros, others), (Slot::Foreign, (None, None)));
}

/// A count block with three counts.
fn three_counts() -> [u8; 4096] {
    let mut block = [7; 4096];
    write_counts(&[1, 0x0102_0304, 5], &mut block);
    block
}

#[test]
fn counts_of_a_block(rt: HostRuntime) {
    let mut block = three_counts();
    let mut wanted = [0; 4096];
    wanted[..12].copy_from_slice(&[1, 0, 0, 0, 4, 3, 2, 1, 5, 0, 0, 0]);
    assert!(rt; block == wanted);
    let (mut counts, mut fewer, mut all) = ([0u32; 3], [9u32; 2], [0u32; COUNTS_PER_BLOCK]);
    let good = read_counts(&block, &mut counts);
    let two = read_counts(&block, &mut fewer);
    block[4095] = 1;
    let three = read_counts(&block, &mut [0; 3]);
    let whole = read_counts(&block, &mut all);
    assert_eq!(rt;
        ([good, two, three, whole], counts, fewer, all[1023]),
        (
            [Ok(()), Err(Damaged), Err(Damaged), Ok(())],
            [1, 0x0102_0304, 5],
            [9, 9],
            0x0100_0000
        )
    );
}

/// The block that the node of a view is written into.
fn written_again(view: &NodeView<'_>) -> [u8; 4096] {
    let mut block = [7; 4096];
    write_node(&view.to_node(), &mut block);
    block
}

/// The kind, the level and the own number of a node; whether it is empty, the rank of a key, and what is found by it.
type Shown = ((TreeKind, u32, Mb), (bool, usize, Option<Entry>));

fn shown(view: &NodeView<'_>, key: u64) -> Shown {
    (
        (view.kind(), view.level(), view.own()),
        (view.is_empty(), view.rank(key), view.find(key)),
    )
}

/// What is shown of a leaf of the device tree at block 8, and whether its node is written as the same block.
fn shown_of_leaf(bytes: &[u8; 4096]) -> Result<(Shown, bool), Damaged> {
    let view = NodeView::read(bytes, Mb::new(8), TreeKind::Device)?;
    Ok((shown(&view, 5), written_again(&view) == *bytes))
}

/// The entry at a place and its key.
fn entry_at(view: &NodeView<'_>, i: usize) -> Option<(Entry, u64)> {
    if i < view.len() {
        Some((view.entry(i), view.key(i)))
    } else {
        None
    }
}

/// What is found by a key, its rank and that of the number before it, and what is found by the number after it.
fn near(view: &NodeView<'_>, key: u64) -> (Option<Entry>, usize, usize, Option<Entry>) {
    let before = view.rank(key.saturating_sub(1));
    let after = view.find(key.saturating_add(1));
    (view.find(key), view.rank(key), before, after)
}

/// The first entry of a list that is not at its place in a node, or near whose key something else is found.
fn first_other(view: &NodeView<'_>, entries: &[Entry]) -> Option<usize> {
    for (i, entry) in entries.iter().enumerate() {
        let found = (entry_at(view, i), near(view, entry.key));
        let wanted = (Some((*entry, entry.key)), (Some(*entry), i + 1, i, None));
        if found != wanted {
            return Some(i);
        }
    }
    None
}

/// What a read of a block tells: the number of entries and whether there is none; the first entry that is another one than
/// that of a list; whether its node is written as the same block; and what is told of it as another block.
type Read = ((usize, bool), Option<usize>, bool, Option<Damaged>);

fn read_of(block: &[u8; 4096], kind: TreeKind, entries: &[Entry]) -> Result<Read, Damaged> {
    let view = NodeView::read(block, Mb::new(9), kind)?;
    let len = (view.len(), view.is_empty());
    let other = first_other(&view, entries);
    let same = written_again(&view) == *block;
    let elsewhere = NodeView::read(block, Mb::new(10), kind).err();
    Ok((len, other, same, elsewhere))
}

fn entry(key: u64, value: u64, mapped: u64) -> Entry {
    Entry {
        key,
        value,
        mapped,
        size: 0,
    }
}

/// What is told of a good node of so many entries.
fn good(entries: usize) -> Result<Read, Damaged> {
    Ok(((entries, false), None, true, Some(Damaged)))
}

/// The fields of three entries without mapped blocks.
const SHORT: [u64; 6] = [3, 40, 7, 5, 0x0102, 6];

#[test]
fn four_kinds_of_node(rt: HostRuntime) {
    let entries = [entry(3, 40, 0), entry(7, 5, 0), entry(0x0102, 6, 0)];
    let leaf = block_of((2, 0, 9, 3), &SHORT);
    let upper = block_of((2, 3, 9, 3), &SHORT);
    let device = block_of((1, 2, 9, 3), &SHORT);
    let long = block_of((1, 0, 9, 2), &[1, 8, 17, 0, 16_777_215, 10, 0, 0]);
    let records = [entry(1, 8, 17), entry(16_777_215, 10, 0)];
    let read = [
        read_of(&leaf, TreeKind::Mapping, &entries),
        read_of(&upper, TreeKind::Mapping, &entries),
        read_of(&device, TreeKind::Device, &entries),
        read_of(&long, TreeKind::Device, &records),
    ];
    let is_short = &leaf[80..96] == [7, 0, 0, 0, 0, 0, 0, 0, 5, 0, 0, 0, 0, 0, 0, 0].as_slice();
    assert!(rt; (read, is_short) == ([good(3), good(3), good(3), good(2)], true));
}

/// Keys, and their ranks in a node with the keys 10, 20, 30 and 40.
const RANKS: [(u64, usize); 10] = [
    (0, 0),
    (9, 0),
    (10, 1),
    (11, 1),
    (19, 1),
    (20, 2),
    (39, 3),
    (40, 4),
    (41, 4),
    (u64::MAX, 4),
];

/// The first of these keys that has another rank in a node.
fn first_other_rank(block: &[u8; 4096]) -> Result<Option<u64>, Damaged> {
    let view = NodeView::read(block, Mb::new(9), TreeKind::Mapping)?;
    for (key, rank) in &RANKS {
        if view.rank(*key) != *rank {
            return Ok(Some(*key));
        }
    }
    Ok(None)
}

#[test]
fn searches(rt: HostRuntime) {
    let block = block_of((2, 1, 9, 4), &[10, 0, 20, 0, 30, 0, 40, 0]);
    assert!(rt; first_other_rank(&block) == Ok(None));
}

/// What a read of a leaf of two records tells, and which damage is found in it, where these bytes of it are changed.
fn damage_of(changes: &[Change]) -> (Option<Damaged>, Option<Refusal>) {
    let mut block = block_of((1, 0, 9, 2), &[10, 11, 12, 0, 20, 21, 22, 0]);
    change(&mut block, changes);
    let read = NodeView::read(&block, Mb::new(9), TreeKind::Device).err();
    (read, node_damage(&block, Mb::new(9), TreeKind::Device))
}

/// Rules of a node, a change by which a leaf of two records breaks each, and the damage that it is.
const DAMAGES: [(&str, Change, Refusal); 15] = [
    ("kind 0", (0, 0), Refusal::BadNode),
    ("kind 2", (0, 2), Refusal::BadNode),
    ("kind 257", (1, 1), Refusal::BadNode),
    ("level 3", (4, 3), Refusal::BadNode),
    ("level 256", (5, 1), Refusal::BadNode),
    ("own number 8", (8, 8), Refusal::BadNode),
    ("own number of eight bytes", (15, 1), Refusal::BadNode),
    ("127 entries", (16, 127), Refusal::BadNode),
    ("1 entry", (16, 1), Refusal::BadNode),
    ("byte 20", (20, 1), Refusal::BadNode),
    ("byte 63", (63, 1), Refusal::BadNode),
    ("byte behind the entries", (128, 1), Refusal::BadNode),
    ("last byte", (4095, 1), Refusal::BadNode),
    ("equal keys", (96, 10), Refusal::BadOrder),
    ("falling keys", (64, 21), Refusal::BadOrder),
];

/// The first rule that a node may break and is not damaged, or damaged in another way.
fn damage_without_effect() -> Option<&'static str> {
    for (rule, change, refusal) in &DAMAGES {
        if damage_of(&[*change]) != (Some(Damaged), Some(*refusal)) {
            return Some(*rule);
        }
    }
    None
}

#[test]
fn damaged_nodes(rt: HostRuntime) {
    assert_eq!(rt; damage_of(&[]), (None, None));
    assert_eq!(rt; damage_without_effect(), None);
}

/// The size that the entry at a place tells.
fn size_at(view: &NodeView<'_>, i: usize) -> Option<u64> {
    if i < view.len() {
        Some(view.entry(i).size)
    } else {
        None
    }
}

/// The sizes that two entries of a block tell, and whether its node is written as the same block.
fn sizes_of(block: &[u8; 4096]) -> Result<(Option<u64>, Option<u64>, bool), Damaged> {
    let view = NodeView::read(block, Mb::new(9), TreeKind::Device)?;
    let same = written_again(&view) == *block;
    Ok((size_at(&view, 0), size_at(&view, 1), same))
}

#[test]
fn leaves_of_the_device_tree(rt: HostRuntime) {
    let mut empty = [0; 4096];
    empty[..20].copy_from_slice(&LEAF);
    let block = block_of((1, 0, 9, 2), &[10, 11, 12, 13, 20, 21, 22, 1 << 63]);
    let wanted = ((TreeKind::Device, 0, Mb::new(8)), (true, 0, None));
    assert!(rt;
        (shown_of_leaf(&empty), sizes_of(&block))
            == (Ok((wanted, true)), Ok((Some(13), Some(1 << 63), true)))
    );
}

/// A block of a node of this kind, level and number of entries, of which entry i has key 3 * i.
fn full_block(rt: HostRuntime, kind: u8, level: u8, count: u8) -> Result<[u8; 4096], Fail> {
    let mut fields = Vec::new(rt.alloc());
    for i in 0..count as u64 {
        fields.push(3 * i)?;
        fields.push(0)?;
        if kind == 1 {
            fields.push(0)?;
            fields.push(0)?;
        }
    }
    Ok(block_of((kind, level, 9, count), fields.as_slice()))
}

/// What a read of such a full block tells: the number of entries, the ranks of two keys, and whether its node is written as the
/// same block.
fn read_full(
    block: &[u8; 4096],
    kind: TreeKind,
    keys: (u64, u64),
) -> Result<(usize, usize, usize, bool), Damaged> {
    let view = NodeView::read(block, Mb::new(9), kind)?;
    let same = written_again(&view) == *block;
    Ok((view.len(), view.rank(keys.0), view.rank(keys.1), same))
}

#[test]
fn full_nodes(rt: HostRuntime) -> Result<(), Fail> {
    let records = full_block(rt, 1, 0, 126)?;
    let short = full_block(rt, 2, 3, 252)?;
    let over = full_block(rt, 2, 3, 253)?;
    let high = full_block(rt, 2, 4, 252)?;
    let read = [
        read_full(&records, TreeKind::Device, (375, 374)),
        read_full(&short, TreeKind::Mapping, (753, 752)),
        read_full(&over, TreeKind::Mapping, (0, 0)),
        read_full(&high, TreeKind::Mapping, (0, 0)),
    ];
    let full = [Ok((126, 126, 125, true)), Ok((252, 252, 251, true))];
    assert!(rt; read == [full[0], full[1], Err(Damaged), Err(Damaged)]);
    Ok(())
}
