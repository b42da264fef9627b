//! A volume of the reference model.

use std::alloc::{AllocError, Global};
use tp_plain::Slot;

/// A volume: the value of each sector, and a label for each data block that it maps.
#[derive(Drop)]
pub struct Volume {
    pub(crate) id: u32,
    /// The label of the root of its tree.
    pub(crate) root: u32,
    /// The label of the data block of each of its blocks; 0 is an unmapped block.
    pub(crate) labels: Vec<u32>,
    /// The value that fills each of its sectors.
    pub(crate) values: Vec<u8>,
}

impl Volume {
    pub(crate) fn copy(&self, alloc: Global) -> Result<Volume, AllocError> {
        Ok(Volume {
            id: self.id,
            root: self.root,
            labels: Vec::from_slice(alloc, &self.labels)?,
            values: Vec::from_slice(alloc, &self.values)?,
        })
    }

    /// Returns the volume's number.
    pub fn id(&self) -> u32 {
        self.id
    }

    /// Returns how many blocks the volume has.
    pub fn blocks(&self) -> usize {
        self.labels.len()
    }

    /// Returns the values of `count` sectors from `sector` on, and nothing if the volume ends before.
    pub fn values_at(&self, sector: u64, count: usize) -> Option<&[u8]> {
        let first = usize::try_from(sector).ok()?;
        self.values.get(first..)?.get(..count)
    }

    pub(crate) fn label(&self, block: usize) -> u32 {
        self.labels.get(block).copied().unwrap_or(0)
    }

    pub(crate) fn set_label(&mut self, block: usize, label: u32) {
        if let Some(place) = self.labels.get_mut(block) {
            *place = label;
        }
    }

    pub(crate) fn fill(&mut self, sector: u64, count: u64, value: u8) {
        let first = usize::try_from(sector).unwrap_or(usize::MAX);
        let count = usize::try_from(count).unwrap_or(0);
        if let Some(part) = self.values.as_mut_slice().get_mut(first..) {
            for place in part.iter_mut().take(count) {
                *place = value;
            }
        }
    }

    pub(crate) fn set_values(&mut self, values: &[u8]) {
        for (to, from) in self.values.iter_mut().zip(values.iter()) {
            *to = *from;
        }
    }

    pub(crate) fn mapped(&self) -> usize {
        let mut count: usize = 0;
        for label in &self.labels {
            if *label != 0 {
                count = count.saturating_add(1);
            }
        }
        count
    }

    /// Returns the highest block that is mapped.
    pub(crate) fn highest(&self) -> Option<u32> {
        let mut highest = None;
        for block in 0..self.labels.len() {
            if self.label(block) != 0 {
                highest = u32::try_from(block).ok();
            }
        }
        highest
    }

    /// Counts the blocks that are mapped to this data block.
    pub(crate) fn count_label(&self, label: u32) -> usize {
        let mut count: usize = 0;
        for other in &self.labels {
            if *other == label {
                count = count.saturating_add(1);
            }
        }
        count
    }

    pub(crate) fn add_labels(&self, all: &mut Vec<u32>) -> Result<(), AllocError> {
        for label in &self.labels {
            if *label != 0 {
                all.push(*label)?;
            }
        }
        Ok(())
    }

    /// Adds the volume's mappings. `more` is added to its number.
    pub(crate) fn add_slots(&self, all: &mut Vec<Slot>, more: u32) -> Result<(), AllocError> {
        for block in 0..self.labels.len() {
            let label = self.label(block);
            if label != 0 {
                all.push(Slot {
                    volume: self.id.wrapping_add(more),
                    block: u32::try_from(block).unwrap_or(u32::MAX),
                    label,
                })?;
            }
        }
        Ok(())
    }

    pub(crate) fn label_options(&self, alloc: Global) -> Result<Vec<Option<u32>>, AllocError> {
        let mut all = Vec::new(alloc);
        for label in &self.labels {
            all.push(if *label == 0 { None } else { Some(*label) })?;
        }
        Ok(all)
    }
}

pub(crate) fn copies_of(alloc: Global, volumes: &[Volume]) -> Result<Vec<Volume>, AllocError> {
    let mut copies = Vec::new(alloc);
    for volume in volumes {
        copies.push(volume.copy(alloc)?)?;
    }
    Ok(copies)
}

/// Adds the labels of all blocks that are mapped.
pub(crate) fn add_labels(all: &mut Vec<u32>, volumes: &[Volume]) -> Result<(), AllocError> {
    for volume in volumes {
        volume.add_labels(all)?;
    }
    Ok(())
}

/// Adds the labels of the roots of all trees.
pub(crate) fn add_roots(all: &mut Vec<u32>, volumes: &[Volume]) -> Result<(), AllocError> {
    for volume in volumes {
        all.push(volume.root)?;
    }
    Ok(())
}

/// Counts the blocks that are mapped to this data block.
pub(crate) fn count_label(volumes: &[Volume], label: u32) -> usize {
    let mut count: usize = 0;
    for volume in volumes {
        count = count.saturating_add(volume.count_label(label));
    }
    count
}
