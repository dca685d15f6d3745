//! A world from what a store keeps of it.

ghost use Rattle.std.specs.Prelude.{◌≡◌, ◌↔◌, ◌<◌, ℕ, Some, None};
ghost use Rattle.std.specs.Prelude.{IfOk, IsPermutation, IsTrue, OnOk};
ghost use Rattle.std.specs.FinMap as map;
ghost use Rattle.std.specs.FinMap.Entries.{find, is_sorted};
ghost use Rattle.std.specs.String.{string_bytes};
ghost use Rattle.imap_batch.specs.Held.{IsKept, summary_in};
ghost use Rattle.imap_names.specs.Order.{name_cmp};
ghost use Rattle.imap_world.specs.Mailbox.{plain_all};
ghost use Rattle.imap_world.specs.Restored.{AreCounted, ArePlaced, IsPlaced};
ghost use Rattle.imap_world.specs.Restored.{AddsName, HaveName, PushesRow, RestoresAcl, RestoresMailboxes};
ghost use Rattle.imap_world.specs.Restored.{RestoresMap, RestoresNames, Subscribes};

use crate::mailbox_entry::MailboxEntry;
use crate::owned::push;
use crate::placing::has_superior;
use crate::shared_mailbox::SharedMailbox;
use crate::world_parts::{MailboxRow, Subscription};
use imap_batch::{Mailbox, PartsError};
use imap_name_map::NameMap;
use imap_name_map::numbers::number_of;
use imap_names::Name;
use imap_rights::Acl;
use imap_user_map::UserMap;
use std::alloc::{AllocError, Global};
use std::cmp::Ordering;

/// The map of these entries. Fails with `Bad` if a name is there twice.
pub(crate) fn map_of<V: Drop>(entries: Vec<(Name, V)>) -> Result<NameMap<V>, PartsError>
    ensures { RestoresMap entries.items result }
{
    match NameMap::from_entries(entries) {
        Some(map) => Ok(map),
        None => Err(PartsError::Bad),
    }
}

/// The mailboxes of these rows. Fails with `Bad` if a name is there twice, or a row is that of no mailbox.
pub(crate) fn mailboxes_of(
    alloc: Global,
    rows: Vec<MailboxRow>,
) -> Result<NameMap<MailboxEntry>, PartsError>
    ensures { RestoresMailboxes rows.items result }
{
    let mut entries = Vec::new(alloc);
    for row in rows {
        if let Err(error) = push_entry(&mut entries, alloc, row) {
            return Err(error);
        }
    }
    map_of(entries)
}

/// Appends the mailbox of the row.
fn push_entry(
    entries: &mut Vec<(Name, MailboxEntry)>,
    alloc: Global,
    row: MailboxRow,
) -> Result<(), PartsError>
    ensures { PushesRow row entries.old.items entries.new.items result }
{
    let MailboxRow {
        name,
        validity,
        acl,
        messages,
    } = row;
    let acl = acl_of(acl)?;
    let mailbox = Mailbox::from_parts(alloc, messages)?;
    let held = held(alloc, mailbox)?;
    let entry = MailboxEntry {
        validity,
        acl,
        messages: held,
        number: 0,
    };
    push(entries, (name, entry))?;
    Ok(())
}

/// Returns the list of these entries. Fails with `Bad` if they are those of no list.
fn acl_of(entries: Vec<imap_rights::Entry>) -> Result<Acl, PartsError>
    ensures { RestoresAcl entries.items result }
{
    match Acl::from_entries(entries) {
        Some(acl) => Ok(acl),
        None => Err(PartsError::Bad),
    }
}

/// The mailbox as a world holds it.
fn held(alloc: Global, mailbox: Mailbox) -> Result<SharedMailbox, AllocError>
    ensures same { IfOk result (λ held. held.value ≡ mailbox) }
    ensures kept { IsKept (summary_in mailbox) }
{
    let _ = mailbox.next_uid();
    SharedMailbox::new(alloc, mailbox)
}

/// Whether the mailboxes are closed under superiors, and the UIDVALIDITY of each is at least 1 and is counted
/// as used. None that is counted is 0.
pub(crate) fn are_sound(mailboxes: &NameMap<MailboxEntry>, epochs: &NameMap<u32>) -> bool
    ensures counted { IsTrue result → AreCounted epochs.now.map }
    ensures placed { IsTrue result → ArePlaced (plain_all mailboxes.now.map) epochs.now.map }
    ensures all { AreCounted epochs.now.map → ArePlaced (plain_all mailboxes.now.map) epochs.now.map
        → IsTrue result }
{
    if !are_counted(epochs) {
        return false;
    }
    are_placed(mailboxes, epochs)
}

/// Whether none is 0.
fn are_counted(epochs: &NameMap<u32>) -> bool
    ensures { IsTrue result ↔ AreCounted epochs.now.map }
{
    are_positive(epochs.entries())
}

fn are_positive(entries: &[(Name, u32)]) -> bool
    requires { IsTrue (is_sorted name_cmp entries.now) }
    ensures { IsTrue result
        ↔ ((name : Name) (validity : ℕ) → find name_cmp name entries.now ≡ Some validity → 0 < validity) }
{
    for entry in entries {
        if entry.1 == 0 {
            return false;
        }
    }
    true
}

/// Whether each mailbox has its superior, and a UIDVALIDITY from 1 to the greatest that was used.
fn are_placed(mailboxes: &NameMap<MailboxEntry>, epochs: &NameMap<u32>) -> bool
    ensures { IsTrue result ↔ ArePlaced (plain_all mailboxes.now.map) epochs.now.map }
{
    are_placed_in(mailboxes, epochs, mailboxes.entries())
}

fn are_placed_in(
    mailboxes: &NameMap<MailboxEntry>,
    epochs: &NameMap<u32>,
    entries: &[(Name, MailboxEntry)],
) -> bool
    requires { IsTrue (is_sorted name_cmp entries.now) }
    ensures { IsTrue result
        ↔ ((name : Name) (entry : MailboxEntry) → find name_cmp name entries.now ≡ Some entry
        → IsPlaced (plain_all mailboxes.now.map) epochs.now.map name entry.validity) }
{
    for entry in entries {
        if !is_placed(mailboxes, epochs, entry) {
            return false;
        }
    }
    true
}

/// Whether the mailbox has its superior, and a UIDVALIDITY from 1 to the greatest that was used.
fn is_placed(
    mailboxes: &NameMap<MailboxEntry>,
    epochs: &NameMap<u32>,
    entry: &(Name, MailboxEntry),
) -> bool
    ensures { IsTrue result
        ↔ IsPlaced (plain_all mailboxes.now.map) epochs.now.map (entry.now).0 ((entry.now).1).validity }
{
    let validity = entry.1.validity;
    let name = entry.0.as_ref();
    if validity == 0 {
        return false;
    }
    if number_of(epochs, &name) < validity {
        return false;
    }
    has_superior(mailboxes, &name)
}

/// The names of each user, of rows in any order. Fails with `Bad` if a user has a name twice.
pub(crate) fn subscriptions_of(
    alloc: Global,
    mut rows: Vec<Subscription>,
) -> Result<UserMap<NameMap<()>>, PartsError>
    ensures { RestoresNames rows.items result }
{
    sort_subscriptions(&mut rows);
    let mut sets = UserMap::new(alloc);
    for row in rows {
        if let Err(error) = add_subscription(&mut sets, alloc, row) {
            return Err(error);
        }
    }
    Ok(sets)
}

/// Puts subscriptions in the order of their names. So none moves the others of its user.
fn sort_subscriptions(rows: &mut Vec<Subscription>)
    ensures { IsPermutation rows.old.items rows.new.items }
{
    rows.sort_unstable_by(|one: &Subscription, other: &Subscription| -> Ordering {
        one.name.as_ref().compare(&other.name.as_ref())
    });
}

/// Adds a name to those of its user. Fails with `Bad` if it is one of them.
fn add_subscription(
    sets: &mut UserMap<NameMap<()>>,
    alloc: Global,
    row: Subscription,
) -> Result<(), PartsError>
    ensures { Subscribes row sets.old sets.new result }
{
    let Subscription { user, name } = row;
    match sets.get_mut(user.as_str()) {
        Some(names) => add_name(names, name),
        None => {
            add_first(sets, alloc, user, name)?;
            Ok(())
        }
    }
}

fn add_name(names: &mut NameMap<()>, name: Name) -> Result<(), PartsError>
    ensures { AddsName name names.old.map names.new.map result }
{
    if names.get(&name.as_ref()).is_some() {
        return Err(PartsError::Bad);
    }
    names.reserve(1)?;
    names.insert_reserved(name, ());
    Ok(())
}

/// Gives a user without a set one of this name.
fn add_first(
    sets: &mut UserMap<NameMap<()>>,
    alloc: Global,
    user: String,
    name: Name,
) -> Result<(), AllocError>
    requires { map.get sets.old.map (string_bytes user) ≡ None }
    ensures { OnOk result
        (HaveName (record { user = string_bytes user; name = name }) sets.old sets.new) }
{
    let mut names = NameMap::new(alloc);
    names.reserve(1)?;
    names.insert_reserved(name, ());
    sets.reserve(1)?;
    sets.insert_reserved(user, names);
    Ok(())
}
