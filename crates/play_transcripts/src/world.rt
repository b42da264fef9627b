//! The world of a case: its images, its files, and the streams of its next commands.

use std::alloc::Global;
use tp_images::MemImages;
use tp_program::Terminals;
use tp_transcript::{Held, Reading};

/// The world of a case.
#[derive(Drop)]
pub(crate) struct World<'a> {
    pub images: MemImages,
    pub held: Held,
    /// The files that it wrote.
    pub files: Vec<&'a str>,
    pub terminals: Terminals,
    pub reading: Reading,
    /// The writes after which standard output fails.
    pub writes: Option<u64>,
}

impl<'a> World<'a> {
    pub(crate) fn new(alloc: Global) -> World<'a> {
        World {
            images: MemImages::new(alloc),
            held: Held { disk: None },
            files: Vec::new(alloc),
            terminals: Terminals {
                input: false,
                errors: false,
            },
            reading: Reading::Whole,
            writes: None,
        }
    }
}
