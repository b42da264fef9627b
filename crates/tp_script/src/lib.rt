//! Scripts of calls on a pool: their lines, the words in which results are reported, and the bytes that clients send.
//!
//! A line is one call; `#` begins a comment. `case NAME` begins a case, which has a disk of its own. `CALL = TEXT` requires that the
//! call reports TEXT, `CALL -> NAME` that it fails with this error (`error 28` for a client's request), and a line without either
//! that it succeeds. Each line is also compared with the reference model, until `no-reference`.
//!
//! - The disk: `disk SECTORS`, `format BLOCK VOLUME METADATA DATA` (sectors of a block, then blocks), `caches CHANGED READ`, `open
//!   [read-only]`, `close`, `sync`, `check`, `clear-needs-check`, `fail N [to M|on]` (disk calls from now on), `calls`,
//!   `metadata-writes FIRST LAST`.
//! - The image of a closed pool: `bytes BLOCK PLACE COUNT`; `byte BLOCK PLACE VALUE` (what `open` and `check` report with this byte);
//!   and changes: `put-byte BLOCK PLACE VALUE`, `put-u32 ..`, `put-u64 ..`, `fill-u32 BLOCK VALUE`, `swap-blocks ONE OTHER`,
//!   `copy-block FROM TO`, `truncate SECTORS`, `put-node BLOCK KIND LEVEL ENTRIES KEY STEP VALUE STEP`.
//! - A trial: a block `trial .. end` lists calls. `try [CHANGE; ..]` plays them on a copy of the image with these changes, and `try
//!   each byte of BLOCK with BITS` on 4,096 copies, in each of which these bits of one byte are flipped. The first reports the answers
//!   that are not `ok`, the second all answers with their numbers. `other` is a report that the image itself does not give. A copy on
//!   which a line has another answer than the one after its ` = ` is not tried further.
//! - The pool: `message LINE`, `change LINE` (a message without its commit), `flush`, `status`, `thin ID`, `size ID`, `volumes`,
//!   `read ID SECTOR COUNT`, `write ID SECTOR COUNT VALUE [fua]`, `trim ..`, `zero .. [no-hole] [fua]`, `read-metadata-snap ..`,
//!   `read-shared ..`, `walk ID FROM`, `walk-shared ..`, `map ID FROM`, `delta ID OTHER FROM`, and of all volumes `sizes` and `contents`.
//! - A client: `client N connect [strict|extended|through|default ID|clones [ID]]`, `go NAME`, `export-name NAME`, `info NAME`, `list`, `abort`,
//!   `structured`, `contexts ID NAME..`, `list-contexts ..`, `read|write|trim|zero ..` without ID, `block-status SECTOR COUNT [one]`,
//!   `flush`, `half REQUEST` and `rest`, `begin REQUEST` and `next-part`, `read-shared ..`, `send BYTES`, `disc`, `hang-up`.
//! - A crash: `crash IMAGE`, or a block `if-crashed IMAGE .. end` that is played beside the case. IMAGE is `oldest`, `newest`,
//!   `second`, `in-turn`, `newest-superblocks`, `oldest-superblocks`, `newest-from SECTOR` or `mixed SEED`.
//! - A matrix: `each call: crash IMAGE.. .. [then ..] end` or `each call: fail ..` plays a block for each of its disk calls; the block
//!   after `then [IMAGE..]` is a second lifetime on each image that the first one leaves. `end = TEXT` compares the counts.
//! - Refused memory: `each allocation: refuse .. end` plays calls on a disk or a pool, and reports a word. It is `done` unless `tools/refused_memory`
//!   refuses one of their allocations: a call may then fail with `Memory`, if it wrote nothing, and is played again.
//! - `repeat A B LINE` plays the line for each number in place of `$`, with 128 times it for `$*128` and 128 more for `$+128`.
//!   `random SEED COUNT` plays random calls.
//!
//! A sector is filled with one value, and values are reported as runs: `0*127 7*2`.
#![tactic(auto)]

mod answer;
mod buffer;
mod contents;
mod frames;
mod line;
mod parse;
mod parse_calls;
mod parse_clients;
mod text;

pub use answer::{Answer, Caller, add_answer, answer_of};
pub use buffer::Buffer;
pub use contents::{SECTOR, add_fill, add_runs, add_values, zero_values};
pub use frames::{
    COOKIE_OF_HALVES, add_contexts, add_head, add_info_option, add_option, add_request, flags_of,
    length_of, number_at,
};
pub use line::{
    Block, ClientCall, CrashImage, Disk, ExportName, ImageChange, Line, Offer, Operation, Picks,
    Pool, Request, Verb,
};
pub use parse::{line_at, lines_of};
pub use text::{Words, add_hex_of, add_spelled, cut_at, number_of};
