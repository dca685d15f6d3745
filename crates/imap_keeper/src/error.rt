//! Refusals.

ghost use Rattle.std.specs.Prelude.{◌≡◌};
ghost use Rattle.imap_keeper.specs.declared.error.KeepError.TheVariants.{Memory};
ghost use Rattle.imap_keeper.specs.Keeping.{count_after};

use std::alloc::AllocError;
use thiserror::Error;

/// Why a keeper didn't save or load.
#[derive(Clone, Copy, Debug, Error)]
pub enum KeepError {
    /// The store refused, or a device below it failed.
    #[error("the store refused")]
    Refused,
    #[error("out of memory")]
    Memory,
    /// What the store holds is that of no world.
    #[error("what the store holds is damaged")]
    Damaged,
}

impl From<AllocError> for KeepError {
    ghost from_gives = { λ _ error. error ≡ Memory };

    fn from(_error: AllocError) -> KeepError {
        KeepError::Memory
    }
}

/// The count of failures after an error.
pub fn count_after(failures: u64, error: KeepError) -> u64
    ensures { result ≡ count_after error failures }
{
    match error {
        KeepError::Refused => failures.saturating_add(1),
        KeepError::Memory | KeepError::Damaged => failures,
    }
}
