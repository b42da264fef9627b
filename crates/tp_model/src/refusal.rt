//! The refusals, with their numbers and names.

ghost use Rattle.std.specs.Prelude.{◌≡◌};

use thiserror::Error;

/// Why a call was refused. It prints as its number and its name.
#[derive(Clone, Copy, Debug, PartialEq, Eq, Error)]
pub enum Refusal {
    /// A number out of its limits, or a disk too small to format.
    #[error("1 BadGeometry")]
    BadGeometry,
    /// Bytes that are not what they should be.
    #[error("2 Damaged")]
    Damaged,
    /// No slot has the magic.
    #[error("3 NotAPool")]
    NotAPool,
    /// A slot has another version.
    #[error("4 BadVersion")]
    BadVersion,
    /// The disk failed in this call.
    #[error("5 Fault")]
    Fault,
    /// A growth was refused.
    #[error("10 Memory")]
    Memory,
    /// A message's form.
    #[error("11 BadSyntax")]
    BadSyntax,
    /// A message's first word.
    #[error("12 UnknownMessage")]
    UnknownMessage,
    /// A device id of 16777216 or more.
    #[error("13 BadDeviceId")]
    BadDeviceId,
    /// The new id is taken.
    #[error("14 Exists")]
    Exists,
    /// There is no such volume.
    #[error("15 NoSuchDevice")]
    NoSuchDevice,
    /// A session holds the volume.
    #[error("16 Busy")]
    Busy,
    /// The current transaction id differs.
    #[error("17 StaleTransactionId")]
    StaleTransactionId,
    /// Too few metadata blocks are free.
    #[error("18 NoMetadataSpace")]
    NoMetadataSpace,
    /// 65536 volumes exist.
    #[error("19 TooManyDevices")]
    TooManyDevices,
    /// The pool is read-only.
    #[error("20 ReadOnly")]
    ReadOnly,
    /// The pool is failed.
    #[error("21 Failed")]
    Failed,
    /// That session is open.
    #[error("22 SessionInUse")]
    SessionInUse,
    /// That session is not open.
    #[error("23 NoSession")]
    NoSession,
    /// Too few data blocks are free.
    #[error("24 NoDataSpace")]
    NoDataSpace,
    /// A volume's new size is less than the one that it has, or over 16777216 blocks.
    #[error("25 BadSize")]
    BadSize,
    /// A metadata root is held already.
    #[error("26 HeldRootExists")]
    HeldRootExists,
    /// No metadata root is held.
    #[error("27 NoHeldRoot")]
    NoHeldRoot,
    /// No superblock can be chosen, or the disk is too small.
    #[error("30 BadSuper")]
    BadSuper,
    /// A node's kind, level, own number, number of entries, or a byte that must be zero.
    #[error("31 BadNode")]
    BadNode,
    /// Keys that do not ascend, or lie outside their interval or limit.
    #[error("32 BadOrder")]
    BadOrder,
    /// A stored count that is not the true one.
    #[error("33 BadCount")]
    BadCount,
    /// A block number out of its range, or more than 65536 volumes.
    #[error("34 OutOfPlace")]
    OutOfPlace,
    /// Fewer entries than the least.
    #[error("35 HalfEmpty")]
    HalfEmpty,
    /// A record's mapped blocks are wrong.
    #[error("36 BadMapped")]
    BadMapped,
    /// A record's size is none that a volume may have.
    #[error("37 BadRecordSize")]
    BadRecordSize,
}

/// An error of a request on the wire (NBD's `proto.md`, "Error values").
#[derive(Clone, Copy, Debug, PartialEq, Eq)]
pub enum NbdError {
    /// `NBD_EPERM`: the volume may not be written.
    NotPermitted,
    /// `NBD_EIO`: the disk failed, or its image is damaged.
    InputOutput,
    /// `NBD_EINVAL`: the request breaks a rule.
    Invalid,
    /// `NBD_ENOSPC`: a write past the end of the volume, or one for which there is no room.
    NoSpace,
}

impl NbdError {
    ghost use Rattle.tp_model.specs.Refusals.{nbd_code};

    /// The number by which the wire tells the error.
    pub fn code(self) -> u32
        ensures { result ≡ nbd_code self }
    {
        match self {
            NbdError::NotPermitted => 1,
            NbdError::InputOutput => 5,
            NbdError::Invalid => 22,
            NbdError::NoSpace => 28,
        }
    }
}

impl Refusal {
    ghost use Rattle.tp_model.specs.Refusals.{refusal_number, nbd_error};

    /// The number by which programs and scripts tell the refusal.
    pub fn number(self) -> u8
        ensures { result ≡ refusal_number self }
    {
        match self {
            Refusal::BadGeometry => 1,
            Refusal::Damaged => 2,
            Refusal::NotAPool => 3,
            Refusal::BadVersion => 4,
            Refusal::Fault => 5,
            Refusal::Memory => 10,
            Refusal::BadSyntax => 11,
            Refusal::UnknownMessage => 12,
            Refusal::BadDeviceId => 13,
            Refusal::Exists => 14,
            Refusal::NoSuchDevice => 15,
            Refusal::Busy => 16,
            Refusal::StaleTransactionId => 17,
            Refusal::NoMetadataSpace => 18,
            Refusal::TooManyDevices => 19,
            Refusal::ReadOnly => 20,
            Refusal::Failed => 21,
            Refusal::SessionInUse => 22,
            Refusal::NoSession => 23,
            Refusal::NoDataSpace => 24,
            Refusal::BadSize => 25,
            Refusal::HeldRootExists => 26,
            Refusal::NoHeldRoot => 27,
            Refusal::BadSuper => 30,
            Refusal::BadNode => 31,
            Refusal::BadOrder => 32,
            Refusal::BadCount => 33,
            Refusal::OutOfPlace => 34,
            Refusal::HalfEmpty => 35,
            Refusal::BadMapped => 36,
            Refusal::BadRecordSize => 37,
        }
    }

    /// The error of a request that a pool refuses so. A request in transmission meets no other refusals than
    /// the three that have an error of their own, and those that mean a failing disk.
    pub fn nbd_error(self) -> NbdError
        ensures { result ≡ nbd_error self }
    {
        match self {
            Refusal::ReadOnly => NbdError::NotPermitted,
            Refusal::NoMetadataSpace | Refusal::NoDataSpace => NbdError::NoSpace,
            _ => NbdError::InputOutput,
        }
    }
}
