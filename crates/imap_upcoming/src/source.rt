//! Where the messages of a mailbox come from.

use imap_batch::BatchWrite;
use imap_mailbox::{Mailbox, Rows};

/// The messages of a mailbox after a change.
#[derive(Drop)]
pub(crate) enum Source<'a> {
    /// They stay as they are.
    There(Rows<'a>),
    /// This is written to those of the mailbox.
    Planned(&'a Mailbox, &'a BatchWrite),
}
