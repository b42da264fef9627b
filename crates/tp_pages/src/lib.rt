//! Pages of listings, and sizes of volumes, as lines of text: as much of a listing as one walk over each volume tells, and as seven runs say. Each is told by few calls of a pool that write nothing, so
//! a pool that is in use may be asked for a listing page by page.
#![tactic(auto)]

mod ask;
mod text;

pub use ask::{delta_line, map_line, size_line};
pub use text::PageLine;
