//! What a mapping tells of virtual blocks.

use tp_model::Pb;

/// Where a virtual block stands.
#[derive(Clone, Copy, Debug, PartialEq, Eq)]
pub struct Mapped {
    /// The data block.
    pub place: Pb,
    /// Whether another slot has the data block too: another virtual block of the device, or one of another device.
    pub is_shared: bool,
}
