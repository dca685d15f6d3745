//! Refusals.

ghost use Rattle.std.specs.Prelude.{◌≡◌};
ghost use Rattle.imap_world.specs.declared.error.WorldError.TheVariants.{Memory};

use std::alloc::{AllocError, AllocFailed};
use thiserror::Error;

/// Why a change of the mailboxes was refused.
#[derive(Clone, Copy, Debug, Error, PartialEq, Eq)]
pub enum WorldError {
    /// There is no such mailbox, no superior of it, or no message with a UID.
    #[error("there is no such mailbox")]
    NoSuch,
    /// The name is in use.
    #[error("the name is taken")]
    Taken,
    /// There are mailboxes below the name.
    #[error("there are mailboxes below the name")]
    Below,
    /// An INBOX can't go, a mailbox can't move to another tree or below itself, and no two batches of one
    /// mailbox are one change.
    #[error("that is not possible")]
    Cannot,
    /// The access control list is full, the name is too long or too deep, no UIDVALIDITY is left under it, no
    /// UID or shared event is left in a mailbox, or a message would have too many keywords.
    #[error("a limit is reached")]
    Limit,
    #[error("out of memory")]
    Memory,
}

impl From<AllocError> for WorldError {
    ghost from_gives = { λ _ error. error ≡ Memory };

    fn from(_error: AllocError) -> WorldError {
        WorldError::Memory
    }
}

impl<T: Drop> From<AllocFailed<T>> for WorldError {
    ghost from_gives = { λ _ error. error ≡ Memory };

    fn from(_error: AllocFailed<T>) -> WorldError {
        WorldError::Memory
    }
}
