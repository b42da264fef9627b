//! Why the store refuses a call.
ghost use Rattle.std.specs.Prelude.{◌≡◌};
ghost use Rattle.tp_counts.specs.StoreErrors.{refusal_of};
ghost use Rattle.tp_counts.specs.declared.error.StoreError.TheVariants as errors;

use thiserror::Error;
use tp_disk::Fault;
use tp_layout::Damaged;
use tp_model::Refusal;

/// Why a call that reads or changes what stands on the disk is refused. It prints as the number and the name of its refusal.
#[derive(Clone, Copy, Debug, PartialEq, Eq, Error)]
pub enum StoreError {
    /// The disk failed in this call.
    #[error("5 Fault")]
    Fault,
    /// Bytes that are not what they should be, or counts that are not those of the references.
    #[error("2 Damaged")]
    Damaged,
}

impl From<Fault> for StoreError {
    ghost from_gives = { λ _ error. error ≡ errors.Fault };

    fn from(_fault: Fault) -> StoreError {
        StoreError::Fault
    }
}

impl From<Damaged> for StoreError {
    ghost from_gives = { λ _ error. error ≡ errors.Damaged };

    fn from(_damaged: Damaged) -> StoreError {
        StoreError::Damaged
    }
}

impl From<StoreError> for Refusal {
    ghost from_gives = { λ error refusal. refusal ≡ refusal_of error };

    fn from(error: StoreError) -> Refusal {
        match error {
            StoreError::Fault => Refusal::Fault,
            StoreError::Damaged => Refusal::Damaged,
        }
    }
}
