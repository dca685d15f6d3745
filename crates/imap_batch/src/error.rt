//! Why a batch is not written.

ghost use Rattle.std.specs.Prelude.{◌≡◌};
ghost use Rattle.imap_batch.specs.declared.error.BatchError.TheVariants.{Memory};

use std::alloc::AllocError;
use thiserror::Error;

/// Why nothing is written.
#[derive(Clone, Copy, Debug, Error)]
pub enum BatchError {
    /// A message would have more than [`MAX_KEYWORDS`](imap_mailbox::MAX_KEYWORDS) keywords, or too few UIDs
    /// or shared events are left.
    #[error("a limit of the mailbox is reached")]
    Limit,
    /// No message of the mailbox has one of the UIDs, or the UIDs don't rise.
    #[error("the mailbox has no messages with these UIDs")]
    NoSuchUid,
    #[error("out of memory")]
    Memory,
}

impl From<AllocError> for BatchError {
    ghost from_gives = { λ _ error. error ≡ Memory };

    fn from(_error: AllocError) -> BatchError {
        BatchError::Memory
    }
}
