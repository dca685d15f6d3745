//! Copies of what a mailbox holds.

ghost use Rattle.std.specs.Prelude.{◌≡◌, IfOk};
ghost use Rattle.std.specs.Vec.{vec_capacity};

use crate::message::Message;
use imap_values::TryCopy;
use std::alloc::{AllocError, Global};

/// Returns an equal copy of the items, with the same capacity.
pub(crate) fn copy_items<T: Copy>(alloc: Global, items: &Vec<T>) -> Result<Vec<T>, AllocError>
    ensures items { IfOk result (λ copy. copy.items ≡ items.now.items) }
    ensures capacity { IfOk result (λ copy. vec_capacity copy ≡ vec_capacity items.now) }
{
    let mut copy = Vec::with_capacity(alloc, items.capacity())?;
    for item in items {
        copy.push_reserved(*item);
    }
    Ok(copy)
}

impl TryCopy for Message {
    fn try_copy(&self, alloc: Global) -> Result<Message, AllocError> {
        let octets = self.octets.try_copy()?;
        let flags = self.flags.try_copy(alloc)?;
        Ok(Message {
            uid: self.uid,
            date: self.date,
            octets,
            flags,
            place: self.place,
        })
    }
}

/// How many messages' octets are fetched into the processor's cache before these are copied.
const FETCHED_AT_ONCE: usize = 64;

/// Fetches the octets of the next messages into the processor's cache.
fn prefetch_next(messages: &[Message], start: usize) {
    if let Some(next) = messages.get(start..) {
        for message in next.iter().take(FETCHED_AT_ONCE) {
            message.octets.prefetch();
        }
    }
}

/// Returns an equal copy of the messages, which shares their octets and keywords.
pub(crate) fn copy_messages(alloc: Global, messages: &[Message]) -> Result<Vec<Message>, AllocError>
    ensures { IfOk result (λ copy. copy.items ≡ messages.now) }
{
    let mut copies = Vec::with_capacity(alloc, messages.len())?;
    for message in messages {
        if copies.len() % FETCHED_AT_ONCE == 0 {
            prefetch_next(messages, copies.len());
        }
        let copy = message.try_copy(alloc)?;
        copies.push_reserved(copy);
    }
    Ok(copies)
}
