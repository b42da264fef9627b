//! Writers of the client's frames. Each writes at a place of a buffer, changes nothing else of it,
//! and answers the place behind what it wrote.

ghost use Rattle.std.specs.Prelude.{◌≡◌, ◌≤◌, ◌<◌, ◌+◌, ◌*◌, ◌^◌, [], length, map};
ghost use Rattle.std.specs.List.{flat_map};
ghost use Rattle.nbd_wire.specs.declared.Kind.TheVariants.{Flags, Options, Requests};
ghost use Rattle.nbd_wire.specs.declared.TheConstants.{MAX_OPTION, MAX_REQUEST};
ghost use Rattle.nbd_wire.specs.Numbers.{bytes};
ghost use Rattle.nbd_wire.specs.Grammar.{FitsRequest, IsFrame, client_flags, client_option, command, flags_value, option_text, payload_len, request_text};
ghost use Rattle.nbd_wire.specs.Contexts.{IsQuery, query_text};
ghost use Rattle.nbd_wire.specs.Replies.{IsInfo, Puts, info_text, server_data};

use crate::writing::{put_bytes, put_server_data, put_u16, put_u32, put_u64};
use crate::{OPTION_MAGIC, REQUEST_MAGIC, Request};

/// The client flags, 4 bytes: fixed newstyle, and whether the client wants no padding zeroes
/// (`proto.md`, "Client flags").
pub fn put_client_flags(out: &mut [u8], at: usize, no_zeroes: bool) -> usize
    requires { at + 4 ≤ length out.old }
    ensures bytes { Puts out.old at (bytes 4 (flags_value no_zeroes)) out.new result }
    ensures frame { IsFrame Flags (client_flags no_zeroes) (bytes 4 (flags_value no_zeroes)) }
    ensures end { result ≡ at + 4 }
    ensures len { length out.new ≡ length out.old }
{
    put_u32(out, at, if no_zeroes { 3 } else { 1 })
}

/// An option, 16 bytes and its data (`proto.md`, "Newstyle negotiation"). The data of EXPORT_NAME
/// is the name; ABORT and LIST have none.
pub fn put_option(out: &mut [u8], at: usize, option: u32, payload: &[u8]) -> usize
    requires short { length payload.now ≤ MAX_OPTION }
    requires room { at + (16 + length payload.now) ≤ length out.old }
    ensures bytes { Puts out.old at
        (option_text OPTION_MAGIC option (length payload.now) payload.now) out.new result }
    ensures frame { IsFrame Options (client_option option payload.now)
        (option_text OPTION_MAGIC option (length payload.now) payload.now) }
    ensures end { result ≡ at + (16 + length payload.now) }
    ensures len { length out.new ≡ length out.old }
{
    let after_head = put_option_head(out, at, option, payload.len() as u32);
    put_bytes(out, after_head, payload)
}

// The fixed part of an option, 16 bytes.
fn put_option_head(out: &mut [u8], at: usize, option: u32, len: u32) -> usize
    requires { at + 16 ≤ length out.old }
    ensures bytes { Puts out.old at (option_text OPTION_MAGIC option len []) out.new result }
    ensures fits { option < 2 ^ 32 }
    ensures end { result ≡ at + 16 }
    ensures len { length out.new ≡ length out.old }
{
    let after_magic = put_u64(out, at, OPTION_MAGIC);
    let after_option = put_u32(out, after_magic, option);
    put_u32(out, after_option, len)
}

// Types of information, one after the other.
fn put_types(out: &mut [u8], at: usize, types: &[u16]) -> usize
    requires { at + 2 * length types.now ≤ length out.old }
    ensures bytes { Puts out.old at (flat_map (bytes 2) types.now) out.new result }
    ensures end { result ≡ at + 2 * length types.now }
    ensures len { length out.new ≡ length out.old }
{
    let mut end = at;
    for kind in types {
        end = put_u16(out, end, *kind);
    }
    end
}

/// The option INFO or GO, 22 bytes, the name, and 2 bytes for each type of information that it asks
/// for (`proto.md`, "NBD_OPT_INFO" and "NBD_OPT_GO").
pub fn put_info_option(out: &mut [u8], at: usize, option: u32, name: &[u8], types: &[u16]) -> usize
    requires short { 6 + length name.now + 2 * length types.now ≤ MAX_OPTION }
    requires room { at + (22 + length name.now + 2 * length types.now) ≤ length out.old }
    ensures bytes { let payload = info_text name.now types.now in
        Puts out.old at (option_text OPTION_MAGIC option (length payload) payload) out.new result }
    ensures frame { let payload = info_text name.now types.now in
        IsFrame Options (client_option option payload)
        (option_text OPTION_MAGIC option (length payload) payload) }
    ensures info { IsInfo (info_text name.now types.now) name.now types.now }
    ensures end { result ≡ at + (22 + length name.now + 2 * length types.now) }
    ensures len { length out.new ≡ length out.old }
{
    let len = 6 + name.len() + 2 * types.len();
    let after_head = put_option_head(out, at, option, len as u32);
    let after_len = put_u32(out, after_head, name.len() as u32);
    let after_name = put_bytes(out, after_len, name);
    let after_count = put_u16(out, after_name, types.len() as u16);
    put_types(out, after_count, types)
}

// Texts, each behind its length, one after the other.
fn put_texts(out: &mut [u8], at: usize, texts: &[&[u8]]) -> usize
    requires short { length (flat_map server_data (map (λ text. text.now) texts.now)) < 2 ^ 32 }
    requires room { at + length (flat_map server_data (map (λ text. text.now) texts.now))
        ≤ length out.old }
    ensures bytes { Puts out.old at
        (flat_map server_data (map (λ text. text.now) texts.now)) out.new result }
    ensures len { length out.new ≡ length out.old }
{
    let mut end = at;
    for text in texts {
        end = put_server_data(out, end, text);
    }
    end
}

/// The data of LIST_META_CONTEXT or SET_META_CONTEXT: 4 bytes and the name of a volume, 4 bytes,
/// and 4 bytes and its text for each query (`proto.md`, "NBD_OPT_SET_META_CONTEXT").
pub fn put_query(out: &mut [u8], at: usize, name: &[u8], queries: &[&[u8]]) -> usize
    requires short { length (query_text name.now (map (λ query. query.now) queries.now))
        ≤ MAX_OPTION }
    requires room { at + length (query_text name.now (map (λ query. query.now) queries.now))
        ≤ length out.old }
    ensures bytes { Puts out.old at
        (query_text name.now (map (λ query. query.now) queries.now)) out.new result }
    ensures query { let texts = map (λ query. query.now) queries.now in
        IsQuery (query_text name.now texts) name.now texts }
    ensures end { result
        ≡ at + length (query_text name.now (map (λ query. query.now) queries.now)) }
    ensures len { length out.new ≡ length out.old }
{
    let after_name = put_server_data(out, at, name);
    let after_count = put_u32(out, after_name, queries.len() as u32);
    put_texts(out, after_count, queries)
}

/// The fixed part of a request, 28 bytes (`proto.md`, "Request message"). What a WRITE writes
/// follows it.
pub fn put_request_head(out: &mut [u8], at: usize, request: &Request) -> usize
    requires { at + 28 ≤ length out.old }
    ensures bytes { Puts out.old at (request_text REQUEST_MAGIC request.now []) out.new result }
    ensures fits { FitsRequest request.now }
    ensures end { result ≡ at + 28 }
    ensures len { length out.new ≡ length out.old }
{
    let after_magic = put_u32(out, at, REQUEST_MAGIC);
    let after_flags = put_u16(out, after_magic, request.flags);
    let after_kind = put_u16(out, after_flags, request.kind);
    let after_cookie = put_u64(out, after_kind, request.cookie);
    let after_offset = put_u64(out, after_cookie, request.offset);
    put_u32(out, after_offset, request.len)
}

/// A request and what a WRITE writes, 28 bytes and these (`proto.md`, "Request message").
pub fn put_request(out: &mut [u8], at: usize, request: &Request, payload: &[u8]) -> usize
    requires whole { length payload.now ≡ payload_len request.now }
    requires short { payload_len request.now ≤ MAX_REQUEST }
    requires room { at + (28 + length payload.now) ≤ length out.old }
    ensures bytes { Puts out.old at
        (request_text REQUEST_MAGIC request.now payload.now) out.new result }
    ensures frame { IsFrame Requests (command request.now payload.now)
        (request_text REQUEST_MAGIC request.now payload.now) }
    ensures end { result ≡ at + (28 + length payload.now) }
    ensures len { length out.new ≡ length out.old }
{
    let after_head = put_request_head(out, at, request);
    put_bytes(out, after_head, payload)
}
