//! Why a mailbox is not changed.

use std::alloc::AllocError;
use thiserror::Error;

/// Why a mailbox was left as it was.
#[derive(Clone, Copy, Debug, Error)]
pub enum MailboxError {
    /// The mailbox has no room for a message.
    #[error("the mailbox is full")]
    Full,
    /// The message would have more than [`MAX_KEYWORDS`](crate::MAX_KEYWORDS) keywords, or no event is left.
    #[error("a limit of the mailbox is reached")]
    Limit,
    /// No message of the mailbox has the UID.
    #[error("the mailbox has no message with this UID")]
    NoSuchUid,
    /// There was no memory for the change.
    #[error("out of memory")]
    Memory,
}

impl From<AllocError> for MailboxError {
    ghost use Rattle.std.specs.Prelude.{◌≡◌};
    ghost use Rattle.imap_mailbox.specs.declared.error.MailboxError.TheVariants.{Memory};

    ghost from_gives = { λ _ error. error ≡ Memory };

    fn from(_error: AllocError) -> MailboxError {
        MailboxError::Memory
    }
}
