//! What a commit stores: definitions of the image that a commit leaves, and laws about them alone.
//!
//! `specs/` says what such an image has (`Commit`), which contents that gives a pool, and which plain pools are opened with
//! them (`Contents`). The laws join these words to those of `tp_image`: which pools the image stands for, which counts are
//! true, and which rules its trees keep. None of it is about code.
#![tactic(auto)]

mod laws;

pub use laws::{
    a_commit_has_room, clean_images_are_commits, commits_are_clean, commits_are_metadata,
    commits_keep_the_rules, commits_stand_for_pools, trees_are_bounded,
};
