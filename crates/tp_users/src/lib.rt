//! Users of a pool: functions over its public calls alone, beside one over those of a hub and one over those of a cache. Each has a contract that a
//! person would want, proved from the contracts of those calls: so these are strong enough to be used.
#![tactic(auto)]

mod blank;
mod cached;
mod checked;
mod first;
mod found;
mod grown;
mod held;
mod kept;
mod lives;
mod out_of_room;
mod pairs;
mod parted;
mod refused;
mod removed;
mod served;
mod sharing;
mod snapshots;
mod spared;
mod through;
mod uncached;
mod walked;
mod zeroed;

pub use blank::blank_pool;
pub use cached::flush_cache_twice;
pub use checked::{
    check_left, check_left_under, check_stopped, check_then_open, stops_leave_clean_images,
    stops_under_caches_leave_clean_images,
};
pub use first::{first_session_is_answered, serve_first};
pub use found::{held_volume_is_there, kept_state_is_found_alone};
pub use grown::grown_blocks_read_zero;
pub use held::{held_mapping_keeps_its_bytes, released_blocks_are_free};
pub use kept::{closed_bytes_are_read, flushed_bytes_are_read};
pub use lives::{hub_leaves_a_clean_image, hub_lives_twice};
pub use out_of_room::{short_pool_is_used_again, stop_short_pool};
pub use pairs::serve_two;
pub use parted::snapshot_keeps_its_bytes;
pub use refused::refused_write_is_nothing;
pub use removed::{removals_leave_all_or_nothing, removed_blocks_are_used_again};
pub use served::{closed_pool_is_opened_again, flushed_nodes_are_on_the_disk};
pub use sharing::readers_agree;
pub use snapshots::snapshot_costs_three_blocks;
pub use spared::{trim_spares_parts_of_blocks, trimmed_blocks_read_zero};
pub use through::answered_writes_are_found;
pub use uncached::hub_on_its_disk_lives_twice;
pub use walked::has_slot;
pub use zeroed::zeroes_are_read;
