//! Why a hall refuses.

ghost use Rattle.std.specs.Prelude.{◌≡◌};

use std::alloc::AllocError;
use thiserror::Error;

/// Why a hall didn't make a step.
#[derive(Clone, Copy, Debug, Error)]
pub enum HallError {
    #[error("out of memory")]
    Memory,
    /// No more entries can be numbered.
    #[error("the journal is at its end")]
    Exhausted,
}

impl From<AllocError> for HallError {
    ghost use Rattle.imap_hall.specs.declared.error.HallError.TheVariants as error;

    ghost from_gives = { λ _ e. e ≡ error.Memory };

    fn from(_error: AllocError) -> HallError {
        HallError::Memory
    }
}

/// Why a hall didn't open.
#[derive(Clone, Copy, Debug, Error, PartialEq, Eq)]
pub enum OpenError {
    #[error("out of memory")]
    Memory,
    /// The store refused to read the mailboxes, or to save the INBOXes that were made.
    #[error("the store refused")]
    Store,
    /// What the store holds are the mailboxes of no world.
    #[error("what the store holds is damaged")]
    Damaged,
}

impl From<AllocError> for OpenError {
    ghost use Rattle.imap_hall.specs.declared.error.OpenError.TheVariants as error;

    ghost from_gives = { λ _ e. e ≡ error.Memory };

    fn from(_error: AllocError) -> OpenError {
        OpenError::Memory
    }
}
