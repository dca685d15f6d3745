//! What a session knows of a message.

ghost use Rattle.std.specs.Prelude.{◌≡◌, IfOk};
ghost use Rattle.imap_mailbox.specs.Lent.{row_shown};
ghost use Rattle.imap_mailbox.specs.Brought.{told_of};

use crate::flags::SharedFlags;
use crate::row::Row;
use imap_values::TryCopy;
use std::alloc::{AllocError, Global};

/// A message as a session was told of it last.
#[derive(Drop)]
pub struct KnownMessage {
    pub uid: u32,
    pub flags: SharedFlags,
    /// The user's own `\Seen`.
    pub seen: bool,
    /// The mod-sequence (RFC 7162, section 3.1).
    pub number: u64,
}

impl KnownMessage {
    /// Returns all that a session is told of the message.
    pub fn of_row(alloc: Global, row: &Row<'_>) -> Result<KnownMessage, AllocError>
        ensures { IfOk result (λ known. known ≡ told_of (row_shown row.now)) }
    {
        let flags = row.flags.try_copy(alloc)?;
        Ok(KnownMessage {
            uid: row.uid,
            flags,
            seen: row.seen,
            number: row.number,
        })
    }
}

impl TryCopy for KnownMessage {
    fn try_copy(&self, alloc: Global) -> Result<KnownMessage, AllocError> {
        let flags = self.flags.try_copy(alloc)?;
        Ok(KnownMessage {
            uid: self.uid,
            flags,
            seen: self.seen,
            number: self.number,
        })
    }
}
