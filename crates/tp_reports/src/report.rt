//! What is asked of a pool that is looked over.
use tp_model::DevId;

/// What is to be told of a pool.
#[derive(Clone, Copy, Debug, PartialEq, Eq)]
pub enum Report {
    /// What each volume has.
    Volumes,
    /// Which blocks of a volume are mapped.
    Map(DevId),
    /// In which of its blocks the second volume may differ from the first.
    Delta(DevId, DevId),
    /// Which data blocks no volume has.
    Free,
}
