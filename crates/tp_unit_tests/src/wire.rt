use nbd_wire::{
    BlockSizes, COMMAND_READ, COMMAND_WRITE, ChunkType, Export, INFO_BLOCK_SIZE,
    OPTION_EXPORT_NAME, OPTION_GO, ReplyType, Request, SimpleReply, put_client_flags,
    put_info_option, put_option, put_query, put_request, put_request_head, read_block_size_info,
    read_chunk, read_data, read_error, read_export_info, read_export_reply, read_extents,
    read_greeting, read_hole, read_option_reply, read_query, read_server_data,
    read_simple_reply_head,
};

const GO_FRAME: &[u8] = b"IHAVEOPT\0\0\0\x07\0\0\0\x07\0\0\0\x010\0\0";

const GO_REPLIES: [u8; 86] = *b"\
\0\x03\xe8\x89\x04\x55\x65\xa9\0\0\0\x07\0\0\0\x03\0\0\0\x0c\0\0\0\0\0\0\0\x10\0\0\0\x6d\
\0\x03\xe8\x89\x04\x55\x65\xa9\0\0\0\x07\0\0\0\x03\0\0\0\x0e\0\x03\0\0\x02\0\0\0\x10\0\0\x10\0\0\
\0\x03\xe8\x89\x04\x55\x65\xa9\0\0\0\x07\0\0\0\x01\0\0\0\0";

const READ_FRAME: &[u8] = b"\x25\x60\x95\x13\0\0\0\0\0\0\0\0\0\0\0\x02\0\0\0\0\0\0\0\0\0\0\x02\0";

#[test]
fn flags_and_options_are_written(rt: HostRuntime) {
    let (mut flags, mut go, mut named, mut typed) = (
        [0xffu8; 9],
        [0u8; 23],
        [0u8; 17],
        [0xffu8; 26],
    );
    let ends = [
        put_client_flags(&mut flags, 1, true),
        put_client_flags(&mut flags, 5, false),
        put_info_option(&mut go, 0, OPTION_GO, b"0", &[]),
        put_option(&mut named, 0, OPTION_EXPORT_NAME, b"0"),
        put_info_option(&mut typed, 0, OPTION_GO, b"0", &[INFO_BLOCK_SIZE]),
    ];
    let are_written = [
        flags == *b"\xff\0\0\0\x03\0\0\0\x01",
        go.as_slice() == GO_FRAME,
        named == *b"IHAVEOPT\0\0\0\x01\0\0\0\x010",
        typed == *b"IHAVEOPT\0\0\0\x07\0\0\0\x09\0\0\0\x010\0\x01\0\x03\xff",
    ];
    assert!(rt; (ends, are_written) == ([5, 9, 23, 17, 25], [true; 4]));
}

#[test]
fn requests_are_written(rt: HostRuntime) {
    let reads = Request {
        flags: 0,
        kind: COMMAND_READ,
        cookie: 2,
        offset: 0,
        len: 512,
    };
    let writes = Request {
        flags: 1,
        kind: COMMAND_WRITE,
        cookie: 7,
        offset: 512,
        len: 3,
    };
    let mut read = [0xffu8; 28];
    let mut write = [0xffu8; 31];
    let ends = (
        put_request_head(&mut read, 0, &reads),
        put_request(&mut write, 0, &writes, b"xyz"),
    );
    let are_written = (
        read.as_slice() == READ_FRAME,
        write == *b"\x25\x60\x95\x13\0\x01\0\x01\0\0\0\0\0\0\0\x07\0\0\0\0\0\0\x02\0\0\0\0\x03xyz",
    );
    assert!(rt; (ends, are_written) == ((28, 31), (true, true)));
}

/// The type and the data of the option reply to GO at the front of a text, and what follows it.
fn reply_of(text: &[u8]) -> Option<(ReplyType, &[u8], &[u8])> {
    let (reply, rest) = read_option_reply(text)?;
    if reply.option == OPTION_GO {
        Some((reply.reply, reply.payload, rest))
    } else {
        None
    }
}

/// What replies to GO tell, and what follows them.
fn told_of(text: &[u8]) -> Option<(Export, BlockSizes, ReplyType, &[u8])> {
    let (_, export, rest) = reply_of(text)?;
    let (_, sizes, rest) = reply_of(rest)?;
    let (last, _, rest) = reply_of(rest)?;
    Some((
        read_export_info(export)?.0,
        read_block_size_info(sizes)?.0,
        last,
        rest,
    ))
}

#[test]
fn option_replies_are_read(rt: HostRuntime) {
    let export = Export {
        size: 1_048_576,
        flags: 0x6d,
    };
    let sizes = BlockSizes {
        least: 512,
        preferred: 4096,
        most: 1_048_576,
    };
    let error: &[u8] = b"\0\x03\xe8\x89\x04\x55\x65\xa9\0\0\0\x07\x80\0\0\x03\0\0\0\0";
    let other: &[u8] = b"\0\x03\xe8\x89\x04\x55\x65\xa9\0\0\0\x07\x80\0\0\x04\0\0\0\0";
    let long: &[u8] = b"\0\x03\xe8\x89\x04\x55\x65\xa9\0\0\0\x07\0\0\0\x03\xff\xff\xff\xffx";
    let read = [
        told_of(&GO_REPLIES) == Some((export, sizes, ReplyType::Acknowledged, b"".as_slice())),
        reply_of(error) == Some((ReplyType::Invalid, b"".as_slice(), b"".as_slice())),
        reply_of(other).is_none(),
        reply_of(long).is_none(),
        read_server_data(b"\0\0\0\x010x") == Some((b"0".as_slice(), b"x".as_slice())),
        read_server_data(b"\xff\xff\xff\xff0").is_none(),
    ];
    assert!(rt; read == [true; 6]);
}

#[test]
fn greetings_and_exports_are_read(rt: HostRuntime) {
    let greeting: &[u8] = b"NBDMAGICIHAVEOPT\0\x03x";
    let wants = Export {
        size: 1_048_576,
        flags: 0x6d,
    };
    let mut text = [0u8; 134];
    text[..10].copy_from_slice(b"\0\0\0\0\0\x10\0\0\0\x6d");
    let read = [
        read_greeting(greeting) == Some(b"x".as_slice()),
        read_greeting(&greeting[..17]).is_none(),
        read_greeting(b"NBDMAGICIHAVEOPT\0\x01x").is_none(),
        read_greeting(b"NBDMAGICIHAVEOPS\0\x03x").is_none(),
        read_export_reply(&text[..11], true) == Some((wants, b"\0".as_slice())),
        read_export_reply(&text, false) == Some((wants, b"".as_slice())),
        read_export_reply(&text[..133], false).is_none(),
    ];
    text[133] = 1;
    let other = read_export_reply(&text, false).is_none();
    assert!(rt; (read, other) == ([true; 7], true));
}

/// Whether the chunk at the front of a text is the last one, its type, cookie and data.
fn chunk_of(text: &[u8]) -> Option<(bool, ChunkType, u64, &[u8])> {
    let (chunk, _) = read_chunk(text)?;
    Some((chunk.is_last, chunk.kind, chunk.cookie, chunk.payload))
}

#[test]
fn replies_and_chunks_are_read(rt: HostRuntime) {
    let reply: &[u8] = b"\x67\x44\x66\x98\0\0\0\x1c\0\0\0\0\0\0\0\x02abc";
    let wants = SimpleReply {
        error: 28,
        cookie: 2,
    };
    let data: &[u8] = b"\x66\x8e\x33\xef\0\0\0\x01\0\0\0\0\0\0\0\x02\0\0\0\x09\0\0\0\0\0\0\x02\0x";
    let done: &[u8] = b"\x66\x8e\x33\xef\0\x01\0\0\0\0\0\0\0\0\0\x05\0\0\0\0";
    let other: &[u8] = b"\x66\x8e\x33\xef\0\x02\0\0\0\0\0\0\0\0\0\x05\0\0\0\0";
    let read = [
        read_simple_reply_head(reply) == Some((wants, b"abc".as_slice())),
        read_simple_reply_head(&reply[..15]).is_none(),
        read_simple_reply_head(&reply[1..]).is_none(),
        read_simple_reply_head(b"").is_none(),
        chunk_of(data) == Some((false, ChunkType::Data, 2, &data[20..])),
        chunk_of(done) == Some((true, ChunkType::Done, 5, b"".as_slice())),
        chunk_of(other).is_none(),
        chunk_of(&data[..28]).is_none(),
        read_data(&data[20..]) == Some((512, b"x".as_slice())),
        read_hole(b"\0\0\0\0\0\x01\0\0\0\x02\0\0") == Some((65_536, 131_072)),
        read_error(b"\0\0\0\x16\0\0") == Some(22),
        read_error(b"\0\0\0\x16\0\x01").is_none(),
    ];
    assert!(rt; read == [true; 12]);
}

/// How long the name of a query is, and what it asks for.
fn queried(text: &[u8]) -> Option<(usize, bool, bool)> {
    let query = read_query(text)?;
    Some((query.name.len(), query.asks, query.lists))
}

/// How long the text is that queries say of an older volume, and the first byte of it.
fn since(text: &[u8]) -> Option<(usize, Option<u8>)> {
    let query = read_query(text)?;
    Some((query.since.len(), query.since.first().copied()))
}

#[test]
fn queries_are_written_and_read(rt: HostRuntime) {
    let mut data = [0xffu8; 38];
    let end = put_query(&mut data, 0, b"0", &[b"base:", b"thinpool:since:3"]);
    let is_written = data == *b"\0\0\0\x010\0\0\0\x02\0\0\0\x05base:\0\0\0\x10thinpool:since:3";
    let read = (queried(&data), since(&data));
    assert!(rt;
        (end, is_written, read) == (38, true, (Some((1, false, true)), Some((1, Some(b'3')))))
    );
}

#[test]
fn a_whole_list_of_extents_is_read(rt: HostRuntime) {
    let text: &[u8] = b"\0\0\x10\0\0\0\0\x03\0\0\x02\0\0\0\0\0";
    let mut extents = [(0, 0); 2];
    let told = [
        read_extents(b"", &mut extents),
        read_extents(&text[..15], &mut extents),
        read_extents(text, &mut extents[..1]),
        read_extents(text, &mut extents),
    ];
    assert!(rt; (told, extents) == ([Some(0), None, None, Some(2)], [(4096, 3), (512, 0)]));
}
