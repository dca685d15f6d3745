//! The index of the mailboxes by the identifiers in their lists.

ghost use Rattle.std.specs.Prelude.{◌≡◌, IfOk};
ghost use Rattle.std.specs.FinMap as map;
ghost use Rattle.imap_identifier_index.specs.Index.{IsKept};
ghost use Rattle.imap_world.specs.Indexed.{IsAddedTo, IsIndexIn};
ghost use Rattle.imap_world.specs.Mailbox.{plain_all};
ghost use Rattle.imap_world.specs.Tree.{mailboxes_with_list};

use crate::change::Write;
use crate::mailbox_entry::MailboxEntry;
use crate::new_mailbox::NewMailbox;
use imap_identifier_index::IdentifierIndex;
use imap_name_map::NameMap;
use imap_names::{Name, NameRef};
use imap_rights::Acl;
use std::alloc::{AllocError, Global};

/// Makes room for what the writes change in the index, each of which may add `more` mailboxes.
pub(crate) fn make_index_room(
    index: &mut IdentifierIndex,
    alloc: Global,
    writes: &[Write],
    more: usize,
) -> Result<(), AllocError>
    ensures { IsKept index.old index.new }
{
    index.reserve(more)?;
    for write in writes {
        make_room_for_lists(index, alloc, write, more)?;
    }
    Ok(())
}

/// Makes room for `more` mailboxes with the list that is written, if one is.
fn make_room_for_lists(
    index: &mut IdentifierIndex,
    alloc: Global,
    write: &Write,
    more: usize,
) -> Result<(), AllocError>
    ensures { IsKept index.old index.new }
{
    match write {
        Write::Put(row) => make_room_for_row(index, alloc, row, more),
        Write::SetAcl(_, acl) => index.reserve_entries(alloc, acl, more),
        Write::Remove(_)
        | Write::Move(_, _, _)
        | Write::Messages(_, _)
        | Write::Subscribe(_, _)
        | Write::Unsubscribe(_, _) => Ok(()),
    }
}

/// Makes room for `more` mailboxes with this list, in the tree of this one.
pub(crate) fn make_room_for_row(
    index: &mut IdentifierIndex,
    alloc: Global,
    row: &NewMailbox,
    more: usize,
) -> Result<(), AllocError>
    ensures { IsKept index.old index.new }
{
    index.reserve(more)?;
    index.reserve_in_tree(alloc, row.name().as_ref().root(), more)?;
    index.reserve_entries(alloc, &row.mailbox().acl, more)
}

/// Takes a mailbox out of the index, if it is there.
pub(crate) fn remove_from_index(
    index: &mut IdentifierIndex,
    mailboxes: &NameMap<MailboxEntry>,
    name: &NameRef<'_>,
)
    ensures { let before = plain_all mailboxes.now.map in
        IsIndexIn index.old before → IsIndexIn index.new (map.remove before name.now) }
{
    match mailboxes.get(name) {
        Some(entry) => index.remove(entry.number, name, &entry.acl),
        None => {}
    }
}

/// Gives a mailbox another list in the index, if it is there.
pub(crate) fn set_list_in_index(
    index: &mut IdentifierIndex,
    mailboxes: &NameMap<MailboxEntry>,
    name: &NameRef<'_>,
    acl: &Acl,
)
    ensures { let before = plain_all mailboxes.now.map in
        IsIndexIn index.old before
        → IsIndexIn index.new (mailboxes_with_list before name.now acl.now (map.get before name.now)) }
{
    match mailboxes.get(name) {
        Some(entry) => index.set_list(entry.number, name, &entry.acl, acl),
        None => {}
    }
}

/// Gives each mailbox its number, and returns their index.
pub(crate) fn index_of(
    mailboxes: &mut NameMap<MailboxEntry>,
    alloc: Global,
) -> Result<IdentifierIndex, AllocError>
    ensures contents { plain_all mailboxes.new.map ≡ plain_all mailboxes.old.map }
    ensures index { IfOk result (λ index. IsIndexIn index (plain_all mailboxes.old.map)) }
{
    let mut index = IdentifierIndex::new(alloc);
    index.reserve(mailboxes.len())?;
    for place in 0..mailboxes.len() {
        let (name, entry) = mailboxes.entry(place);
        let name = name.try_copy()?;
        let number = add_to_index(&mut index, alloc, &name, &entry.acl)?;
        number_at(mailboxes, place, &name.as_ref(), number);
    }
    Ok(index)
}

/// Adds a mailbox to the index, and returns its number.
fn add_to_index(
    index: &mut IdentifierIndex,
    alloc: Global,
    name: &Name,
    acl: &Acl,
) -> Result<u32, AllocError>
    ensures { IfOk result (λ number. IsAddedTo index.old index.new name.now acl.now) }
{
    index.reserve_in_tree(alloc, name.as_ref().root(), 1)?;
    index.reserve_entries(alloc, acl, 1)?;
    Ok(index.add(name, acl))
}

/// Gives a mailbox its number. It is found at once if it is the one at `place`.
fn number_at(mailboxes: &mut NameMap<MailboxEntry>, place: usize, name: &NameRef<'_>, number: u32)
    ensures { plain_all mailboxes.new.map ≡ plain_all mailboxes.old.map }
{
    match mailboxes.get_mut_near(place, name) {
        Some(entry) => entry.number = number,
        None => {}
    }
}
