//! Messages that wait to be saved.

use imap_batch::NewMessage;
use std::alloc::{AllocError, Global};
use std::mem;

/// How many messages are saved in one transaction, at most.
const MAX_MESSAGES: usize = 1_000;

/// Once the messages of a transaction have this many octets, they are saved.
const MAX_OCTETS: usize = 1 << 26;

/// Messages that are to be saved.
#[derive(Drop)]
pub(crate) struct Pending {
    messages: Vec<NewMessage>,
    octets: usize,
    /// How many of them stand in the places of others.
    in_place: usize,
}

impl Pending {
    pub(crate) fn new(alloc: Global) -> Pending {
        Pending {
            messages: Vec::new(alloc),
            octets: 0,
            in_place: 0,
        }
    }

    pub(crate) fn push(&mut self, message: NewMessage) -> Result<(), AllocError> {
        self.octets = self.octets.saturating_add(message.octets.as_slice().len());
        self.messages.push(message)?;
        Ok(())
    }

    /// Adds what stands in the place of a message that is gone.
    pub(crate) fn push_in_place(&mut self, message: NewMessage) -> Result<(), AllocError> {
        self.in_place = self.in_place.saturating_add(1);
        self.push(message)
    }

    /// How many messages of files there are.
    pub(crate) fn count(&self) -> usize {
        self.messages.len().saturating_sub(self.in_place)
    }

    pub(crate) fn len(&self) -> usize {
        self.messages.len()
    }

    pub(crate) fn is_full(&self) -> bool {
        self.messages.len() >= MAX_MESSAGES || self.octets >= MAX_OCTETS
    }

    /// Takes the messages.
    pub(crate) fn take(&mut self, alloc: Global) -> Vec<NewMessage> {
        self.octets = 0;
        self.in_place = 0;
        mem::replace(&mut self.messages, Vec::new(alloc))
    }
}
