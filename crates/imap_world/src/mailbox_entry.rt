//! What a name stands for.
//!
//! The messages stand in a box, so that the sorted list of names stays small and moves little when a name
//! is put in.

ghost use Rattle.std.specs.Prelude.{◌≡◌, false, IfOk, OnOk};
ghost use Rattle.imap_batch.specs.Written.{with_batch, MayWrite};
ghost use Rattle.imap_world.specs.Mailbox.{new_mailbox, plain};
ghost use Rattle.imap_world.specs.Shared.{HasOwnRoomFor};

use crate::owned::both;
use crate::shared_mailbox::SharedMailbox;
use imap_batch::{BatchWrite, Mailbox};
use imap_identifier_index::Numbered;
use imap_rights::Acl;
use imap_values::beside;
use std::alloc::{AllocError, Global};

/// A mailbox, apart from its name. Contracts see it with its room; `plain` leaves that out.
pub struct MailboxEntry {
    /// UIDVALIDITY (RFC 9051, section 2.3.1.1).
    pub validity: u32,
    pub acl: Acl,
    pub messages: SharedMailbox,
    /// The number by which the world's index knows it. Another number may stand here: the index tests it.
    pub(crate) number: u32,
}

// Not derived: a derived one is proved anew in each crate that lets go of one.
impl Drop for MailboxEntry {
    fn drop(self) {
        let MailboxEntry {
            validity: _,
            acl: _,
            messages: _,
            number: _,
        } = self;
    }
}

impl Numbered for MailboxEntry {
    fn number(&self) -> u32 {
        self.number
    }
}

impl MailboxEntry {
    /// A mailbox without messages.
    pub(crate) fn new(alloc: Global, validity: u32, acl: Acl) -> Result<MailboxEntry, AllocError>
        ensures { IfOk result (λ entry. plain entry ≡ new_mailbox validity acl) }
    {
        let messages = SharedMailbox::new(alloc, Mailbox::new(alloc));
        let (messages, acl) = beside(messages, acl)?;
        Ok(MailboxEntry {
            validity,
            acl,
            messages,
            number: 0,
        })
    }

    /// Makes room for what is written to its messages.
    pub(crate) fn make_room(&mut self, alloc: Global, write: &BatchWrite) -> Result<(), AllocError>
        ensures contents { plain self.new ≡ plain self.old }
        ensures ok { OnOk result (HasOwnRoomFor write.now.batch self.new.messages) }
    {
        self.messages.make_room(alloc, write)
    }

    /// Writes to its messages, in room that is there.
    pub(crate) fn write(&mut self, write: BatchWrite)
        requires room { HasOwnRoomFor write.batch self.old.messages }
        requires may { MayWrite write (plain self.old).messages }
        ensures { let before = plain self.old in
            plain self.new ≡ record before { messages = with_batch write.batch before.messages } }
    {
        self.messages.write(write);
    }

    /// Lets copies share its messages until they change. If memory runs out, it stays as it was.
    pub(crate) fn share(&mut self, alloc: Global) -> Result<(), AllocError>
        ensures contents { plain self.new ≡ plain self.old }
        ensures ok { OnOk result (self.new.messages.is_own ≡ false) }
    {
        self.messages.share(alloc)
    }

    /// Returns a copy that shares messages, or else octets and keywords. Its room may be another.
    pub fn try_copy(&self, alloc: Global) -> Result<MailboxEntry, AllocError>
        ensures { IfOk result (λ copy. plain copy ≡ plain self.now) }
    {
        let (acl, messages) = both(self.acl.try_copy(alloc), self.messages.try_copy(alloc))?;
        Ok(MailboxEntry {
            validity: self.validity,
            acl,
            messages,
            number: self.number,
        })
    }
}
