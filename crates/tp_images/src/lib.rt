//! Images by name: the contract, images over files, and images in memory.
//!
//! What a program does to images is stated and proved for each `Images`. `FileImages` are the files of a system, and claim nothing of what they hold;
//! `MemImages` keep by proof what they are closed with, can be stopped and made to fail.
#![tactic(auto)]

mod files;
mod images;
mod log;
mod memory;
mod noting;
mod shelf;
mod way;

pub use files::FileImages;
pub use images::Images;
pub use memory::MemImages;
pub use way::Way;
