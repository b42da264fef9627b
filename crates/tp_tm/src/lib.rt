//! The nodes of a pool by block, and how often each block is named.
//!
//! A node is read from its block, and a changed or fresh one is written to its block at once. A block that the last
//! commit names is never written: a node there is changed in a copy. No call takes memory.
#![tactic(auto)]

mod commit;
mod copies;
mod data_blocks;
mod nodes;
mod references;
mod release;

ghost use Rattle.std.specs.Prelude.{◌≡◌, ◌-◌, ◌<◌, slice_index};
ghost use Rattle.tp_layout.specs.declared.counts.Part.TheVariants.{Data, Metadata};
ghost use Rattle.tp_tm.specs.Tm.{IsSized, data_counts, free_data, free_metadata, metadata_counts, used_data, used_metadata};

use std::marker::Model;
use tp_counts::Counts;
use tp_model::{Geometry, Mb, Pb};

/// How many bytes a metadata block has.
pub const BLOCK: usize = 4096;

/// The counts of both parts.
#[derive(Drop)]
pub struct Tm {
    geometry: Geometry,
    metadata_counts: Counts,
    data_counts: Counts,
    held_root: Mb,
}

impl Model for Tm {
    ghost use Rattle.tp_tm.specs.Tm as values;
    ghost use Rattle.tp_tm.specs.Tm.{AreOfParts};

    ghost Value = { values.Tm };

    ghost view = { λ t. record { geometry = t.geometry; metadata_now = t.metadata_counts.now; metadata_kept = t.metadata_counts.kept; data_now = t.data_counts.now; data_kept = t.data_counts.kept; held_root = t.held_root } };

    ghost invariant = { λ t. AreOfParts t.geometry t.metadata_counts t.data_counts };
}

impl Tm {
    /// A store of nodes with these counts, which are those of the two parts of one pool.
    pub fn new(geometry: Geometry, metadata: Counts, others: Counts, held_root: Mb) -> Tm
        requires metadata { (metadata.geometry ≡ geometry) × (metadata.part ≡ Metadata) }
        requires others { (others.geometry ≡ geometry) × (others.part ≡ Data) }
        ensures { result ≡ record { geometry = geometry; metadata_now = metadata.now; metadata_kept = metadata.kept; data_now = others.now; data_kept = others.kept; held_root = held_root } }
    {
        let _ = (metadata.blocks(), others.blocks());
        let _ = (geometry.metadata_blocks(), geometry.data_blocks());
        Tm {
            geometry,
            metadata_counts: metadata,
            data_counts: others,
            held_root,
        }
    }

    /// The root of a held copy of the trees; 0 where there is none.
    pub fn held_root(&self) -> Mb
        ensures { result ≡ self.now.held_root }
    {
        self.held_root
    }

    /// The root of a held copy of the trees is this one now; 0 where there is none.
    pub fn hold(&mut self, root: Mb)
        ensures { self.new ≡ record self.old { held_root = root } }
    {
        self.held_root = root;
    }

    /// The sizes of the pool. There is a count for each of its blocks.
    pub fn geometry(&self) -> Geometry
        ensures value { result ≡ self.now.geometry }
        ensures sized { IsSized self.now }
    {
        self.geometry
    }

    /// How often a metadata block is named now.
    pub fn node_count(&self, block: Mb) -> u32
        requires { block < self.now.geometry.metadata_blocks }
        ensures { result ≡ slice_index self.now.metadata_now block }
    {
        self.metadata_counts.now(block.number() as u64)
    }

    /// How often the last commit names a metadata block.
    pub fn node_kept(&self, block: Mb) -> u32
        requires { block < self.now.geometry.metadata_blocks }
        ensures { result ≡ slice_index self.now.metadata_kept block }
    {
        self.metadata_counts.kept(block.number() as u64)
    }

    /// How often a data block is named now.
    pub fn data_count(&self, place: Pb) -> u32
        requires { place < self.now.geometry.data_blocks }
        ensures { result ≡ slice_index self.now.data_now place }
    {
        self.data_counts.now(place.number() as u64)
    }

    /// How often the last commit names a data block.
    pub fn data_kept(&self, place: Pb) -> u32
        requires { place < self.now.geometry.data_blocks }
        ensures { result ≡ slice_index self.now.data_kept place }
    {
        self.data_counts.kept(place.number() as u64)
    }

    /// How many metadata blocks are free: named neither now nor by the last commit.
    pub fn free_metadata(&self) -> u64
        ensures { result ≡ free_metadata self.now }
    {
        self.metadata_counts.free_count()
    }

    /// How many data blocks are free: named neither now nor by the last commit.
    pub fn free_data(&self) -> u64
        ensures { result ≡ free_data self.now }
    {
        self.data_counts.free_count()
    }

    /// How many metadata blocks are named now.
    pub fn used_metadata(&self) -> u64
        ensures { result ≡ used_metadata self.now }
    {
        self.metadata_counts.used_count()
    }

    /// How many data blocks are named now.
    pub fn used_data(&self) -> u64
        ensures { result ≡ used_data self.now }
    {
        self.data_counts.used_count()
    }
}
