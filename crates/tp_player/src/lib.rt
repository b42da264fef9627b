//! Plays scripts: each line through the layers that the product uses, beside the reference model.
#![tactic(auto)]

mod changes;
mod chunks;
mod client_lines;
mod compare;
mod counts;
mod crash;
mod disk;
mod disk_lines;
mod idle;
mod image;
mod lifetimes;
mod look;
mod matrix;
mod memory;
mod option_lines;
mod play;
mod pool_lines;
mod random;
mod replies;
mod report;
mod server;
mod stage;
mod trials;
mod world;

pub use play::play_scripts;
