//! Copies of mailboxes.

ghost use Rattle.std.specs.Prelude.{◌≡◌, ◌||◌, IfOk, OnOk};
ghost use Rattle.std.specs.FinMap as map;
ghost use Rattle.imap_names.specs.Name.{Name};
ghost use Rattle.imap_world.specs.Mailbox.{AreShared, is_shared, plain_all};
ghost use Rattle.imap_world.specs.Messages.{is_same_name};

use crate::mailbox_entry::MailboxEntry;
use imap_name_map::NameMap;
use imap_names::NameRef;
use std::alloc::{AllocError, Global};

/// Returns a copy of the mailboxes. Their room may be another.
pub(crate) fn copy_mailboxes(
    alloc: Global,
    mailboxes: &NameMap<MailboxEntry>,
) -> Result<NameMap<MailboxEntry>, AllocError>
    ensures { IfOk result (λ copy. plain_all copy.map ≡ plain_all mailboxes.now.map) }
{
    let entries = mailboxes.entries();
    let mut copy = NameMap::new(alloc);
    copy.reserve(entries.len())?;
    for entry in entries {
        let name = entry.0.try_copy()?;
        let mailbox = entry.1.try_copy(alloc)?;
        copy.insert_reserved(name, mailbox);
    }
    Ok(copy)
}

/// Lets copies share the messages of all mailboxes until they change. If memory runs out, some are shared.
pub(crate) fn share_mailboxes(
    mailboxes: &mut NameMap<MailboxEntry>,
    alloc: Global,
) -> Result<(), AllocError>
    ensures contents { plain_all mailboxes.new.map ≡ plain_all mailboxes.old.map }
    ensures ok { OnOk result (AreShared mailboxes.new.map) }
{
    for index in 0..mailboxes.len() {
        let name = mailboxes.entry(index).0.try_copy()?;
        share_in(mailboxes, alloc, index, &name.as_ref())?;
    }
    Ok(())
}

/// Lets copies share the messages of the mailbox of this name, which is found at once if it is at `index`.
fn share_in(
    mailboxes: &mut NameMap<MailboxEntry>,
    alloc: Global,
    index: usize,
    name: &NameRef<'_>,
) -> Result<(), AllocError>
    ensures contents { plain_all mailboxes.new.map ≡ plain_all mailboxes.old.map }
    ensures len { map.len mailboxes.new.map ≡ map.len mailboxes.old.map }
    ensures ok { OnOk result ((other : Name) → is_shared (map.get mailboxes.new.map other)
        ≡ (is_same_name other name.now || is_shared (map.get mailboxes.old.map other))) }
{
    match mailboxes.get_mut_near(index, name) {
        Some(entry) => entry.share(alloc),
        None => Ok(()),
    }
}
