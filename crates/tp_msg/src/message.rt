//! What a message asks of a pool.

use tp_model::DevId;

/// A message to a pool (the kernel's `thin-provisioning.rst`, "Messages"; `grow` is own).
///
/// Each may be refused by `Failed`, `ReadOnly`, `Fault` and `Damaged`, and by what stands at it. By `NoMetadataSpace` the pool wants a check from then on, and is
/// read-only, which a commit keeps.
#[derive(Clone, Copy, Debug, PartialEq, Eq)]
pub enum Message {
    /// `create_thin <dev id>`: a new volume, of which nothing is mapped. Refused by `Exists`, `TooManyDevices` or `NoMetadataSpace`.
    CreateThin { id: DevId },
    /// `create_snap <dev id> <origin id>`: a new volume with the content that its origin has now, whose data blocks it shares. The origin may be held, and may be a
    /// snapshot itself. Refused by `NoSuchDevice` (the origin), `Exists`, `TooManyDevices` or `NoMetadataSpace`.
    CreateSnap { id: DevId, origin: DevId },
    /// `delete <dev id>`: the volume, which nobody holds, is gone. Its data blocks are free again, but for those that other volumes or a held mapping share with it.
    /// Refused by `NoSuchDevice`, `Busy` or `NoMetadataSpace` (only while a metadata root is held).
    Delete { id: DevId },
    /// `set_transaction_id <current id> <new id>`: the pool's transaction id becomes the new one, where it is the current one. Refused by `StaleTransactionId`.
    SetTransactionId { current: u64, next: u64 },
    /// `grow <dev id> <blocks>`: the volume, which nobody holds, gets so many blocks of its pool's block size; those behind its old end have no data block, so they
    /// read zero. A snapshot keeps its own size. At its present size nothing changes. Refused by `NoSuchDevice`, `Busy`,
    /// `BadSize` (fewer blocks than it has, or more than 16777216) or `NoMetadataSpace`.
    Grow { id: DevId, blocks: u64 },
    /// `reserve_metadata_snap`: the mapping of all volumes is held as it is now. Until it is given up, what the volumes have now can be read, whatever becomes of them.
    /// Refused by `HeldRootExists` or `NoMetadataSpace`.
    ReserveMetadataSnap,
    /// `release_metadata_snap`: what is held is given up. Data blocks that only it had are free again. It is never refused for want of room.
    /// Refused by `NoHeldRoot`.
    ReleaseMetadataSnap,
}
