//! What an image stands for: definitions above the bytes, and laws about them alone.
//!
//! `specs/` says which superblock an image's two slots give (`Slots`), which nodes stand in its blocks and to which
//! entries paths lead from a root (`Nodes`), what a count should be (`Counts`), which counts are stored and where
//! (`Areas`), which rules the trees keep (`Rules`),
//! how many metadata blocks volumes may use (`Bound`), which pool all of this is (`Stands`), which image is clean
//! (`Clean`), and what is wrong with one that is not (`Faults`). None of it is about code: the pool's own proof and that of its checker cite the same definitions.
#![tactic(auto)]

mod laws;

pub use laws::{
    counts_lie_apart, counts_survive_stops, faults_of_small_images,
    fresh_image_stands_for_the_empty_pool, metadata_bounds, one_list_of_counts, one_node_a_block,
    paths_by_intervals_are_paths, snapshot_shares_the_root,
};
