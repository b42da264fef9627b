//! Why an image is not found clean.
ghost use Rattle.std.specs.Prelude.{◌≡◌};
ghost use Rattle.tp_check.specs.Errors.{refusal_of};

use thiserror::Error;
use tp_model::Refusal;

/// Why an image is not found clean: the check could not be made, or the image has a fault. It prints as the number and
/// the name of its refusal.
#[derive(Clone, Copy, Debug, PartialEq, Eq, Error)]
pub enum CheckError {
    /// The disk failed.
    #[error("5 Fault")]
    Fault,
    /// Memory was refused.
    #[error("10 Memory")]
    Memory,
    /// No superblock can be chosen, or the disk is shorter than the chosen one says.
    #[error("30 BadSuper")]
    BadSuper,
    /// A block that is named holds no node of the kind and level that it should, or a record of an image of version 1 has a size.
    #[error("31 BadNode")]
    BadNode,
    /// Keys that do not ascend, or lie outside their interval or limit.
    #[error("32 BadOrder")]
    BadOrder,
    /// The stored counts are not the true ones, or too few metadata blocks have the count 0.
    #[error("33 BadCount")]
    BadCount,
    /// The number of a root, child or data block out of its range, or more than 65536 volumes.
    #[error("34 OutOfPlace")]
    OutOfPlace,
    /// A node with fewer entries than the least.
    #[error("35 HalfEmpty")]
    HalfEmpty,
    /// A record that tells another number of mapped blocks than its volume has.
    #[error("36 BadMapped")]
    BadMapped,
    /// A record of an image of version 2 that tells a size that no volume may have.
    #[error("37 BadRecordSize")]
    BadRecordSize,
}

impl CheckError {
    /// The refusal by whose number programs tell it.
    pub fn refusal(self) -> Refusal
        ensures { result ≡ refusal_of self }
    {
        match self {
            CheckError::Fault => Refusal::Fault,
            CheckError::Memory => Refusal::Memory,
            CheckError::BadSuper => Refusal::BadSuper,
            CheckError::BadNode => Refusal::BadNode,
            CheckError::BadOrder => Refusal::BadOrder,
            CheckError::BadCount => Refusal::BadCount,
            CheckError::OutOfPlace => Refusal::OutOfPlace,
            CheckError::HalfEmpty => Refusal::HalfEmpty,
            CheckError::BadMapped => Refusal::BadMapped,
            CheckError::BadRecordSize => Refusal::BadRecordSize,
        }
    }
}
