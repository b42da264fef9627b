//! Which virtual blocks share a data block: definitions above the trees, and laws about them alone.
//!
//! `specs/` says what a device tree with the volumes' trees is (`Forest`), which slots share a data block there, what the
//! trees stand for as lists (`Volumes`), and what changes of the trees do to both (`Changes`, `Later`). None of it is about
//! code: the mapping above the trees cites the same definitions.
#![tactic(auto)]

mod laws;

pub use laws::{
    changed_trees_are_volumes, changes_are_those_of_lists, counts_tell_data_in_use,
    device_trees_can_change, held_copies_stay, shared_slots_have_shared_paths,
    trees_stand_for_lists, trees_use_few_blocks, volumes_stay_or_are_new,
};
