//! A mailbox that copies of the world share.
//!
//! No clause of `Arc` says that it has one owner, so a mailbox that may be written to stands in a box.
//! `share` takes `&mut self`, since it moves each mailbox from its box into an `Arc`.

ghost use Rattle.std.specs.Prelude.{◌≡◌, false, IfOk, OnOk};
ghost use Rattle.imap_batch.specs.Written.{with_batch, MayWrite};
ghost use Rattle.imap_batch.specs.Held.{summary_in};
ghost use Rattle.imap_world.specs.Shared.{HasOwnRoomFor};

use imap_batch::{BatchWrite, Mailbox, make_room, write_batch};
use imap_values::beside;
use std::alloc::{AllocError, Global};
use std::marker::Model;
use std::mem;
use std::sync::Arc;

/// A mailbox that copies of the world share until it changes.
///
/// Contracts see it with its room, and whether it is its world's own: no other one is written to.
#[derive(Drop)]
pub struct SharedMailbox {
    place: Place,
}

#[derive(Drop)]
pub(crate) enum Place {
    /// A box keeps the entries small, which move when a name is added before them.
    Own(Box<Mailbox>),
    Shared(Arc<Mailbox>),
}

impl Model for SharedMailbox {
    ghost use Rattle.imap_world.specs.Shared.{Shared, shared_code, is_own_in, mailbox_in};

    ghost Value = { Shared };

    ghost coded = { shared_code };

    ghost view = { λ m. record { value = mailbox_in m.place; is_own = is_own_in m.place } };
}

impl SharedMailbox {
    /// A mailbox that is no other world's.
    pub(crate) fn new(alloc: Global, mailbox: Mailbox) -> Result<SharedMailbox, AllocError>
        ensures { IfOk result (λ made. made.value ≡ mailbox) }
    {
        Ok(SharedMailbox {
            place: Place::Own(Box::new(alloc, mailbox)?),
        })
    }

    /// The mailbox.
    pub fn as_ref(&self) -> &Mailbox
        ensures { result.now ≡ self.now.value }
    {
        match &self.place {
            Place::Own(mailbox) => mailbox.as_ref(),
            Place::Shared(mailbox) => mailbox,
        }
    }

    /// Makes room for what is written. A mailbox that is shared is copied first.
    pub(crate) fn make_room(&mut self, alloc: Global, write: &BatchWrite) -> Result<(), AllocError>
        ensures contents { summary_in self.new.value ≡ summary_in self.old.value }
        ensures ok { OnOk result (HasOwnRoomFor write.now.batch self.new) }
    {
        match &mut self.place {
            Place::Own(mailbox) => make_room(mailbox.as_mut(), alloc, write),
            Place::Shared(mailbox) => {
                let mut copy = mailbox.try_copy(alloc)?;
                let ready = make_room(&mut copy, alloc, write);
                let ((), copy) = beside(ready, copy)?;
                self.place = Place::Own(Box::new(alloc, copy)?);
                Ok(())
            }
        }
    }

    /// Writes, in room that is there.
    pub(crate) fn write(&mut self, write: BatchWrite)
        requires room { HasOwnRoomFor write.batch self.old }
        requires may { MayWrite write (summary_in self.old.value) }
        ensures { summary_in self.new.value ≡ with_batch write.batch (summary_in self.old.value) }
    {
        match &mut self.place {
            Place::Own(mailbox) => write_batch(mailbox.as_mut(), write),
            Place::Shared(_) => drop(write),
        }
    }

    /// Lets copies share it. If memory runs out, it stays as it was.
    pub(crate) fn share(&mut self, alloc: Global) -> Result<(), AllocError>
        ensures contents { self.new.value ≡ self.old.value }
        ensures ok { OnOk result (self.new.is_own ≡ false) }
    {
        match &mut self.place {
            Place::Own(mailbox) => {
                // A mailbox without messages takes no memory.
                let moved = mem::replace(mailbox.as_mut(), Mailbox::new(alloc));
                match Arc::new(alloc, moved) {
                    Ok(shared) => {
                        self.place = Place::Shared(shared);
                        Ok(())
                    }
                    Err(failed) => {
                        *mailbox.as_mut() = failed.value;
                        Err(AllocError)
                    }
                }
            }
            Place::Shared(_) => Ok(()),
        }
    }

    /// Returns a copy, which shares the mailbox if it is shared already. The room of another copy may be
    /// another.
    pub(crate) fn try_copy(&self, alloc: Global) -> Result<SharedMailbox, AllocError>
        ensures { IfOk result (λ copy. summary_in copy.value ≡ summary_in self.now.value) }
    {
        match &self.place {
            Place::Own(mailbox) => SharedMailbox::new(alloc, mailbox.try_copy(alloc)?),
            Place::Shared(mailbox) => Ok(SharedMailbox {
                place: Place::Shared(Arc::try_clone(mailbox)?),
            }),
        }
    }
}
