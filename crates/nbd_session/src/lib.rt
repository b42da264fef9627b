//! One client of the NBD protocol over the volumes of a pool: bytes in, bytes out.
//!
//! A [`Session`] takes its buffers when it is opened. It is fed what its client sends, cut anywhere, and answers frame by
//! frame. It knows the options EXPORT_NAME, LIST, INFO, GO and ABORT, and READ, WRITE, TRIM, WRITE_ZEROES, FLUSH and DISC;
//! where it is extended also STRUCTURED_REPLY, LIST_META_CONTEXT and SET_META_CONTEXT, and BLOCK_STATUS.
#![tactic(auto)]

mod advance;
mod answer;
mod batch;
mod buffers;
mod clones;
mod feeding;
mod flushes;
mod gather;
mod holes;
mod laws;
mod listing;
mod name;
mod older;
mod options;
mod parts;
mod phase;
mod request;
mod session;
mod shared;
mod spans;
mod status;

pub use answer::{MAX_ANSWER, SHORT_ANSWER};
pub use batch::{PieceKind, kind_of_piece};
pub use buffers::give_back;
pub use feeding::feed;
pub use laws::{
    changes_are_exact, holes_are_exact, lives_are_runs, older_volumes_stay, one_place, pieces_join,
    sessions_are_plain, statuses_are_exact, turns_are_traced,
};
pub use name::id_of;
pub use phase::{
    ContextOf, Course, FIRST_CLONE, MOST_CLONES, Manner, Phase, Profile, Terms, has_clones,
};
pub use session::{Answered, Session, Step};
