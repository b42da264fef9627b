//! What the commands do that have a pool alone: over the one of an image, or over one in memory.
//!
//! Each opens an image of [`tp_images::Images`], does its work and closes it: [`format`](asking::format) and [`create`] make a pool, [`message_to_image`], [`status_of_image`] and
//! [`tell_listing`] open one, [`check_image`] and [`clear_image`] look it over, [`feed_image`] carries a client of a stream, [`play_image`] a script. What is refused is
//! told with its cause ([`tp_failures::Failure`]). Those that serve many clients at once open a pool by [`opening`], begin by [`beginning`], and end it by [`closing`].
#![tactic(auto)]

pub mod asking;
pub mod beginning;
mod caches;
mod clearing;
pub mod closing;
mod creating;
mod devices;
mod feeding;
mod fresh;
mod images;
pub mod opening;
mod reports;
mod scripts;
mod telling;

pub use creating::create;
pub use feeding::{feed_fresh, feed_image};
pub use images::{
    check_image, clear_image, format_image, message_to_image, status_of_image, try_image,
    volume_asked,
};
pub use reports::tell_listing;
pub use scripts::{Unplayed, play_fresh, play_image};
