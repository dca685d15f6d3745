//! The rights that a mailbox gives.

ghost use Rattle.std.specs.Prelude.{◌≡◌, OnErr};
ghost use Rattle.std.specs.FinMap as map;
ghost use Rattle.imap_world.specs.Changing.{Answers, Changes};
ghost use Rattle.imap_world.specs.Mailbox.{plain_all};
ghost use Rattle.imap_world.specs.Tree.{acl_with_rights, mailboxes_with_list};

use crate::error::WorldError;
use crate::mailbox_entry::MailboxEntry;
use imap_name_map::NameMap;
use imap_names::NameRef;
use imap_rights::{Acl, AclError, Identifier, RightsChange};
use std::alloc::Global;

/// The list with the rights of one identifier changed. Fails with `Limit` if it would have an entry too many.
pub(crate) fn changed_acl(
    alloc: Global,
    acl: &Acl,
    identifier: &Identifier,
    change: RightsChange,
) -> Result<Acl, WorldError>
    ensures { Answers result (acl_with_rights acl.now identifier.now change) }
{
    if acl.is_full_for(identifier, change.applied(acl.rights_of(identifier))) {
        return Err(WorldError::Limit);
    }
    let mut changed = acl.try_copy(alloc)?;
    match change_rights(&mut changed, identifier.try_copy(alloc)?, change) {
        Ok(()) => Ok(changed),
        Err(error) => Err(error),
    }
}

/// Sets the list of a mailbox, if it is there.
pub(crate) fn put_acl(mailboxes: &mut NameMap<MailboxEntry>, name: &NameRef<'_>, acl: Acl)
    ensures mailboxes { let before = plain_all mailboxes.old.map in
        plain_all mailboxes.new.map ≡ mailboxes_with_list before name.now acl (map.get before name.now) }
    ensures spare { mailboxes.new.spare ≡ mailboxes.old.spare }
{
    match mailboxes.get_mut(name) {
        Some(mailbox) => mailbox.acl = acl,
        None => {}
    }
}

fn change_rights(
    acl: &mut Acl,
    identifier: Identifier,
    change: RightsChange,
) -> Result<(), WorldError>
    ensures acl { Changes result acl.new (acl_with_rights acl.old identifier change) }
    ensures err { OnErr result (acl.new ≡ acl.old) }
{
    let rights = change.applied(acl.rights_of(&identifier));
    match acl.set(identifier, rights) {
        Ok(()) => Ok(()),
        Err(AclError::Full) => Err(WorldError::Limit),
        Err(AclError::Memory) => Err(WorldError::Memory),
    }
}
