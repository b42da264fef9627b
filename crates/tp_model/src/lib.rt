//! What a thin pool is: its plain types, and in `specs/` the definitions that every contract above cites.
//!
//! The pool is that of the kernel's thin-provisioning document (`thin-provisioning.rst`) in a profile of this
//! project's own; the errors of requests are those of the NBD protocol (`proto.md`, "Error values").
#![tactic(auto)]

mod clones;
mod geometry;
mod laws;
mod mode;
mod numbers;
mod refusal;
mod slots;
mod volumes;

pub use clones::Cloned;
pub use geometry::Geometry;
pub use laws::{
    Claim, calls_are_determined, calls_are_lawful, calls_are_possible, calls_are_traced,
    changes_leave_other_volumes, equal_slots_have_equal_sectors, held_sizes_stay,
    held_volumes_stay, kept_answers_are_found, kept_state_is_found,
    mapped_blocks_are_exclusive_or_shared, moments_of_a_disk, requests_find_their_volume,
    snapshots_are_new, stops_are_lawful, tests_may_be_answered, unkept_calls_are_flushed,
    walks_are_exact,
};
pub use mode::Mode;
pub use numbers::{DevId, Mb, Pb, Vb};
pub use refusal::{NbdError, Refusal};
pub use slots::{MOST_SLOTS, Slot, Slots, Walked};
pub use volumes::{Flushing, SharedReads, SharedVolumes, Staged, Volumes};
