//! Reads calls on the disk and the pool.

use crate::line::{Disk, ImageChange, Operation, Pool, Request};
use crate::parse::crash_image;
use crate::text::{Words, unquoted};

fn operation(word: &str, words: &mut Words<'_>) -> Operation {
    match word {
        "read" => Operation::Read {
            df: words.take("df"),
        },
        "write" => Operation::Write {
            value: words.byte(),
            fua: words.take("fua"),
        },
        "trim" => Operation::Trim {
            fua: words.take("fua"),
        },
        "zero" => Operation::Zero {
            no_hole: words.take("no-hole"),
            fua: words.take("fua"),
        },
        "block-status" => Operation::Status {
            is_one: words.take("one"),
        },
        _ => {
            words.refuse();
            Operation::Read { df: false }
        }
    }
}

/// Reads a request whose volume and first word are read already.
pub(crate) fn request(word: &str, volume: u32, words: &mut Words<'_>) -> Request {
    Request {
        volume,
        sector: words.number(),
        count: words.number(),
        operation: operation(word, words),
    }
}

fn request_of_volume(word: &str, words: &mut Words<'_>) -> Request {
    let volume = words.id();
    request(word, volume, words)
}

fn failing_calls(words: &mut Words<'_>) -> Disk {
    let first = words.number();
    if words.take("on") {
        Disk::Fail(first, u64::MAX)
    } else if words.take("to") {
        Disk::Fail(first, words.number())
    } else {
        Disk::Fail(first, first)
    }
}

fn node(words: &mut Words<'_>) -> ImageChange {
    let [block, kind, level, entries] = words.four_numbers();
    let [key, key_step, value, value_step] = words.four_numbers();
    ImageChange::Node([
        block, kind, level, entries, key, key_step, value, value_step,
    ])
}

/// Reads a change of the image whose first word is read already.
fn image_change(word: &str, words: &mut Words<'_>) -> Option<ImageChange> {
    Some(match word {
        "put-byte" => ImageChange::Byte(words.three_numbers()),
        "put-u32" => ImageChange::U32(words.three_numbers()),
        "put-u64" => ImageChange::U64(words.three_numbers()),
        "fill-u32" => ImageChange::FillU32(words.number(), words.number()),
        "swap-blocks" => ImageChange::Swap(words.number(), words.number()),
        "copy-block" => ImageChange::Copy(words.number(), words.number()),
        "put-node" => node(words),
        _ => return None,
    })
}

fn image_call(word: &str, words: &mut Words<'_>) -> Option<Disk> {
    Some(match word {
        "bytes" => Disk::Bytes(words.three_numbers()),
        "byte" => Disk::Byte(words.three_numbers()),
        "truncate" => Disk::Truncate(words.number()),
        "fail" => failing_calls(words),
        "calls" => Disk::Calls,
        "metadata-writes" => Disk::MetadataWrites(words.number(), words.number()),
        "no-reference" => Disk::NoReference,
        _ => match image_change(word, words) {
            Some(change) => Disk::Change(change),
            None => return None,
        },
    })
}

fn open(words: &mut Words<'_>) -> Disk {
    if words.take("read-only") {
        Disk::OpenReadOnly
    } else {
        Disk::Open
    }
}

/// Reads a call on the disk whose first word is read already. Returns `None` if the word names another call.
pub(crate) fn disk_call(word: &str, words: &mut Words<'_>) -> Option<Disk> {
    Some(match word {
        "disk" => Disk::New(words.number()),
        "format" => Disk::Format(words.four_numbers()),
        "caches" => Disk::Caches(words.number(), words.number()),
        "open" => open(words),
        "close" => Disk::Close,
        "crash" => Disk::Crash(crash_image(words)),
        "sync" => Disk::Sync,
        "check" => Disk::Check,
        "clear-needs-check" => Disk::ClearNeedsCheck,
        _ => return image_call(word, words),
    })
}

fn read_call<'a>(word: &str, words: &mut Words<'_>) -> Pool<'a> {
    match word {
        "read-metadata-snap" => Pool::ReadSnapshot(request_of_volume("read", words)),
        "read-shared" => Pool::ReadShared(request_of_volume("read", words)),
        "walk" => Pool::Walk(words.id(), words.id()),
        "walk-shared" => Pool::WalkShared(words.id(), words.id()),
        "map" => Pool::Map(words.id(), words.id()),
        "delta" => Pool::Delta(words.id(), words.id(), words.id()),
        _ => Pool::Request(request_of_volume(word, words)),
    }
}

/// Reads a call of the pool whose first word is read already.
pub(crate) fn pool_call<'a>(word: &str, words: &mut Words<'a>) -> Pool<'a> {
    match word {
        "status" => Pool::Status,
        "thin" => Pool::Thin(words.id()),
        "size" => Pool::Size(words.id()),
        "volumes" => Pool::Volumes,
        "sizes" => Pool::Sizes,
        "contents" => Pool::Contents,
        "message" => Pool::Message(unquoted(words.all())),
        "change" => Pool::Change(unquoted(words.all())),
        "flush" => Pool::Flush,
        _ => read_call(word, words),
    }
}
