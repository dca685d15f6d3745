//! Batches of mailboxes that are named.

use imap_batch::{Batch, BatchWrite};
use imap_names::Name;
use imap_values::TryCopy;
use std::alloc::{AllocError, Global};

/// What is asked of the messages of a mailbox.
#[derive(Drop)]
pub struct NamedBatch {
    /// The name of the mailbox.
    pub name: Name,
    pub batch: Batch,
}

/// What is written to the messages of a mailbox.
#[derive(Drop)]
pub struct NamedWrite {
    /// The name of the mailbox.
    pub name: Name,
    pub write: BatchWrite,
}

impl TryCopy for NamedWrite {
    fn try_copy(&self, alloc: Global) -> Result<NamedWrite, AllocError> {
        let name = self.name.try_copy()?;
        let write = self.write.try_copy(alloc)?;
        Ok(NamedWrite { name, write })
    }
}
