//! A mailbox that is made.

ghost use Rattle.std.specs.Prelude.{◌≡◌, IfOk};
ghost use Rattle.imap_world.specs.Mailbox.{plain};
ghost use Rattle.imap_world.specs.NewMailbox.{mailbox_in};

use crate::mailbox_entry::MailboxEntry;
use crate::owned::both;
use imap_names::Name;
use imap_rights::Acl;
use imap_values::beside;
use std::alloc::{AllocError, Global};
use std::marker::Model;

/// A mailbox that is made, with its name. It has no messages.
#[derive(Drop)]
pub struct NewMailbox {
    pub(crate) name: Name,
    /// The same name, for the table of validities.
    pub(crate) epoch_name: Name,
    pub(crate) mailbox: MailboxEntry,
}

impl Model for NewMailbox {
    ghost use Rattle.std.specs.Prelude.{◌≡◌};
    ghost use Rattle.imap_batch.specs.Held.{summary_in};
    ghost use Rattle.imap_world.specs.Mailbox.{no_messages};
    ghost use Rattle.imap_world.specs.NewMailbox as specs;

    ghost Value = { specs.NewMailbox };

    ghost coded = { specs.new_mailbox_code };

    ghost view = { λ row. record {
      name = row.name;
      validity = row.mailbox.validity;
      acl = row.mailbox.acl;
    } };

    ghost invariant = { λ row.
        (row.epoch_name ≡ row.name) × (summary_in row.mailbox.messages.value ≡ no_messages) };
}

impl NewMailbox {
    /// A mailbox without messages, which is made under the name.
    pub(crate) fn new(
        alloc: Global,
        name: Name,
        validity: u32,
        acl: Acl,
    ) -> Result<NewMailbox, AllocError>
        ensures { IfOk result (λ row. row ≡ record { name = name; validity = validity; acl = acl }) }
    {
        let mailbox = MailboxEntry::new(alloc, validity, acl);
        let (mailbox, name) = beside(mailbox, name)?;
        let (epoch_name, (mailbox, name)) = beside(name.try_copy(), (mailbox, name))?;
        Ok(NewMailbox {
            name,
            epoch_name,
            mailbox,
        })
    }

    /// The name under which it is made.
    pub fn name(&self) -> &Name
        ensures { result.now ≡ self.now.name }
    {
        &self.name
    }

    /// The mailbox.
    pub fn mailbox(&self) -> &MailboxEntry
        ensures { plain result.now ≡ mailbox_in self.now }
    {
        &self.mailbox
    }

    /// Returns an equal copy.
    pub fn try_copy(&self, alloc: Global) -> Result<NewMailbox, AllocError>
        ensures { IfOk result (λ copy. copy ≡ self.now) }
    {
        let names = both(self.name.try_copy(), self.epoch_name.try_copy());
        let ((name, epoch_name), mailbox) = both(names, self.mailbox.try_copy(alloc))?;
        Ok(NewMailbox {
            name,
            epoch_name,
            mailbox,
        })
    }
}
