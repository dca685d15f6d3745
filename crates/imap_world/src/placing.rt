//! Mailboxes that are made.

ghost use Rattle.std.specs.Prelude.{◌≡◌};
ghost use Rattle.imap_world.specs.Changing.{Answers};
ghost use Rattle.imap_world.specs.Tree.{new_row};
ghost use Rattle.imap_world.specs.Kept.{superior_is_there};
ghost use Rattle.imap_world.specs.Mailbox.{plain_all};

use crate::error::WorldError;
use crate::mailbox_entry::MailboxEntry;
use crate::new_mailbox::NewMailbox;
use imap_name_map::NameMap;
use imap_name_map::numbers::next_number;
use imap_names::{Name, NameRef};
use imap_rights::Acl;
use std::alloc::Global;

/// Whether the name lies right below a mailbox or the root of its tree.
pub(crate) fn has_superior(mailboxes: &NameMap<MailboxEntry>, name: &NameRef<'_>) -> bool
    ensures { result ≡ superior_is_there (plain_all mailboxes.now.map) name.now }
{
    match name.superior() {
        Some(above) => mailboxes.get(&above).is_some(),
        None => true,
    }
}

/// The mailbox that is made under a name, with the next UIDVALIDITY. Fails with `Limit` if none is left.
pub(crate) fn new_row(
    alloc: Global,
    epochs: &NameMap<u32>,
    name: Name,
    acl: Acl,
) -> Result<NewMailbox, WorldError>
    ensures { Answers result (new_row epochs.now.map name acl) }
{
    match next_number(epochs, &name.as_ref()) {
        Some(validity) => Ok(NewMailbox::new(alloc, name, validity, acl)?),
        None => Err(WorldError::Limit),
    }
}
