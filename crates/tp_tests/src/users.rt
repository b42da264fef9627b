//! The users of a pool succeed where nothing fails.

use crate::texts::{Part, joined};
use std::alloc::Global;
use std::test::Fail;
use tp_model::DevId;
use tp_samples::fill_of;
use tp_users::{
    closed_bytes_are_read, flushed_bytes_are_read, grown_blocks_read_zero,
    held_mapping_keeps_its_bytes, released_blocks_are_free, serve_first,
};

/// What a client sends up to the payload of its write, and behind it: flags, GO of volume 0, a write of a sector, a read of it, FLUSH and DISC.
const BEFORE: [u8; 55] = [
    0, 0, 0, 3, 73, 72, 65, 86, 69, 79, 80, 84, 0, 0, 0, 7, 0, 0, 0, 7, 0, 0, 0, 1, 48, 0, 0, 37,
    96, 149, 19, 0, 0, 0, 1, 0, 0, 0, 0, 0, 0, 0, 1, 0, 0, 0, 0, 0, 0, 0, 0, 0, 0, 2, 0,
];

const BEHIND: [u8; 84] = [
    37, 96, 149, 19, 0, 0, 0, 0, 0, 0, 0, 0, 0, 0, 0, 2, 0, 0, 0, 0, 0, 0, 0, 0, 0, 0, 2, 0, 37,
    96, 149, 19, 0, 0, 0, 3, 0, 0, 0, 0, 0, 0, 0, 3, 0, 0, 0, 0, 0, 0, 0, 0, 0, 0, 0, 0, 37, 96,
    149, 19, 0, 0, 0, 2, 0, 0, 0, 0, 0, 0, 0, 4, 0, 0, 0, 0, 0, 0, 0, 0, 0, 0, 0, 0,
];

/// The bytes of a sector that is written, kept, and read again.
const WRITTEN: [u8; 512] = [7; 512];

/// And those that are written in their place.
const ANEW: [u8; 512] = [8; 512];

/// How many bytes the first client is sent, and the byte that fills the payload in them.
fn told_of_the_first(alloc: Global) -> Result<(usize, Option<u8>), Fail> {
    let text = joined(
        alloc,
        &[
            Part::Text(&BEFORE),
            Part::Fill(0x61, 512),
            Part::Text(&BEHIND),
        ],
    )?;
    let mut out = Vec::new(alloc);
    let _ = serve_first(alloc, &text, &mut out)?;
    Ok((out.len(), out.get(118..630).and_then(fill_of)))
}

#[test]
fn the_first_session_is_served(rt: HostRuntime) -> Result<(), Fail> {
    let told = told_of_the_first(rt.alloc())?;
    assert_eq!(rt; told, (646, Some(0x61)));
    Ok(())
}

#[test]
fn kept_bytes_are_read_again(rt: HostRuntime) -> Result<(), Fail> {
    let (alloc, id) = (rt.alloc(), DevId::new(3));
    let (mut flushed, mut closed) = ([0; 512], [0; 512]);
    flushed_bytes_are_read(alloc, id, 5, &WRITTEN, &[], &mut flushed)?;
    closed_bytes_are_read(alloc, id, 5, &WRITTEN, &mut closed)?;
    let (mut before, mut behind) = ([1; 512], [1; 512]);
    grown_blocks_read_zero(
        alloc,
        id,
        2047,
        &WRITTEN,
        17,
        &[],
        2048,
        &mut before,
        &mut behind,
    )?;
    let read = [&flushed, &closed, &before, &behind].map(|sector| fill_of(sector));
    assert_eq!(rt; read, [Some(7), Some(7), Some(0), Some(0)]);
    Ok(())
}

#[test]
fn held_bytes_are_read(rt: HostRuntime) -> Result<(), Fail> {
    let id = DevId::new(3);
    let (mut now, mut held) = ([1; 512], [1; 512]);
    let (mut now_again, mut held_again) = ([1; 512], [1; 512]);
    held_mapping_keeps_its_bytes(
        rt.alloc(),
        id,
        5,
        &WRITTEN,
        &ANEW,
        &[],
        &mut now,
        &mut held,
        &mut now_again,
        &mut held_again,
    )?;
    let read = [
        fill_of(&now),
        fill_of(&held),
        fill_of(&now_again),
        fill_of(&held_again),
    ];
    let released = released_blocks_are_free(rt.alloc(), id, 5, &WRITTEN, &ANEW);
    assert_eq!(rt;
        (read, released.is_ok()),
        ([Some(8), Some(7), Some(8), Some(7)], true)
    );
    Ok(())
}
