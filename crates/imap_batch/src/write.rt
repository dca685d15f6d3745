//! What is written for a batch.

ghost use Rattle.std.specs.Prelude.{◌≡◌, IfOk};

use crate::batch::Batch;
use imap_mailbox::Items;
use imap_values::beside;
use std::alloc::{AllocError, Global};

/// A batch with the numbers by which it is written, and the own changes that go with it. Each row of a store follows from it.
#[derive(Drop)]
pub struct BatchWrite {
    pub batch: Batch,
    /// The UID of the first message that is added.
    pub first_uid: u32,
    /// The place of the first shared event among those of the mailbox, from 0.
    pub first_place: u64,
    /// How many own changes the user had before.
    pub own_before: u64,
    /// The places of the user's own changes that go: each was the last change of its message, and no shared
    /// event is between it and the next change.
    pub dropped: Items<u64>,
}

impl BatchWrite {
    /// Returns an equal copy, which shares octets and keywords.
    pub fn try_copy(&self, alloc: Global) -> Result<BatchWrite, AllocError>
        ensures { IfOk result (λ copy. copy ≡ self.now) }
    {
        let mut dropped = Vec::new(alloc);
        dropped.extend_from_slice(self.dropped.as_slice())?;
        let (batch, dropped) = beside(self.batch.try_copy(alloc), dropped)?;
        Ok(BatchWrite {
            batch,
            first_uid: self.first_uid,
            first_place: self.first_place,
            own_before: self.own_before,
            dropped: Items::from_vec(dropped),
        })
    }
}
