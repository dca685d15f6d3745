//! The damaged row of a store.
//!
//! `restore` ends at the first fault that it finds, and says no more. Only where it refused, the rows are
//! walked once more, and one is named. No contract says which: it is tested.

ghost use Rattle.imap_restore.specs.Parts.{HaveGroups};

use crate::below::{Restore, read_below};
use crate::grouping::grouped;
use crate::message_rows::damage_in_three;
use crate::parts::{has_id, ids_of, set_of};
use imap_keeper::{Damage, RowFault};
use imap_mailbox::{GoneMessage, Mailbox, MailboxParts, Message, PartsError, UserChange};
use imap_message_tables::join_tables;
use imap_rights::{Acl, Entry};
use imap_stored_values::{read_count, read_key};
use imap_tables::{AddedTables, FromRow, MailboxKey, StoredMailbox, StoredTables};
use std::alloc::Global;
use std::collections::BTreeSet;

/// Finds a damaged row: the first that is wrong by itself, or else the first that doesn't fit others.
/// Returns `None` if none is found, or memory runs out.
pub fn find_damage(alloc: Global, tables: StoredTables, added: AddedTables) -> Option<Damage> {
    if let Some(row) = tables.messages.first() {
        return Some(of_row("message", row, RowFault::Value));
    }
    if let Some(damage) = damage_in_three(alloc, &added) {
        return Some(damage);
    }
    match join_tables(alloc, tables, added) {
        Ok(Some(tables)) => damage_in_one(alloc, tables),
        Ok(None) | Err(_) => None,
    }
}

/// Finds a row, where each message stands in one.
fn damage_in_one(alloc: Global, tables: StoredTables) -> Option<Damage> {
    match grouped(tables) {
        Ok(tables) => damage_in(alloc, &tables),
        Err(_) => None,
    }
}

fn damage_in(alloc: Global, tables: &StoredTables) -> Option<Damage>
    requires { HaveGroups tables.now }
{
    if let Some(damage) = bad_value(alloc, tables) {
        return Some(damage);
    }
    if let Some(damage) = bad_name(alloc, tables) {
        return Some(damage);
    }
    if let Some(damage) = lost_row(alloc, tables) {
        return Some(damage);
    }
    unfit_mailbox(alloc, tables)
}

/// Finds a row below a mailbox that keeps nothing.
fn bad_value(alloc: Global, tables: &StoredTables) -> Option<Damage> {
    if let Some(damage) = bad_below::<_, Entry>(alloc, "acl", &tables.entries) {
        return Some(damage);
    }
    if let Some(damage) = bad_below::<_, Message>(alloc, "message2", &tables.messages) {
        return Some(damage);
    }
    if let Some(damage) = bad_below::<_, GoneMessage>(alloc, "gone", &tables.gone) {
        return Some(damage);
    }
    bad_below::<_, UserChange>(alloc, "mark", &tables.marks)
}

fn bad_below<R: FromRow, T: Restore<R>>(
    alloc: Global,
    table: &'static str,
    rows: &[R],
) -> Option<Damage> {
    for row in rows {
        if is_bad::<R, T>(alloc, row) {
            return Some(of_row(table, row, RowFault::Value));
        }
    }
    None
}

fn is_bad<R, T: Restore<R>>(alloc: Global, row: &R) -> bool {
    match T::restore(alloc, row) {
        Err(PartsError::Bad) => true,
        Ok(_) | Err(PartsError::Memory) => false,
    }
}

pub(crate) fn of_row<R: FromRow>(table: &'static str, row: &R, fault: RowFault) -> Damage {
    Damage {
        table,
        row: row.rowid(),
        fault,
    }
}

/// Finds a row with a name that names no mailbox, or with a number that is none.
fn bad_name(alloc: Global, tables: &StoredTables) -> Option<Damage> {
    for row in &tables.mailboxes {
        if row.validity == 0 || read_count(row.shared).is_none() || is_no_name(alloc, &row.key) {
            return Some(of_row("mailbox", row, RowFault::Value));
        }
    }
    for row in &tables.epochs {
        if row.greatest == 0 || is_no_name(alloc, &row.key) {
            return Some(of_row("epoch", row, RowFault::Value));
        }
    }
    for row in &tables.subscriptions {
        if is_no_name(alloc, &row.key) {
            return Some(of_row("sub", row, RowFault::Value));
        }
    }
    None
}

fn is_no_name(alloc: Global, key: &MailboxKey) -> bool {
    match read_key(alloc, key) {
        Err(PartsError::Bad) => true,
        Ok(_) | Err(PartsError::Memory) => false,
    }
}

/// Finds a row below a mailbox that is missing.
fn lost_row(alloc: Global, tables: &StoredTables) -> Option<Damage> {
    let ids = ids_of(alloc, &tables.mailboxes).ok()?;
    let ids = set_of(alloc, ids).ok()?;
    if let Some(damage) = lost_below::<_, Entry>("acl", &tables.entries, &ids) {
        return Some(damage);
    }
    if let Some(damage) = lost_below::<_, Message>("message2", &tables.messages, &ids) {
        return Some(damage);
    }
    if let Some(damage) = lost_below::<_, GoneMessage>("gone", &tables.gone, &ids) {
        return Some(damage);
    }
    lost_below::<_, UserChange>("mark", &tables.marks, &ids)
}

fn lost_below<R: FromRow, T: Restore<R>>(
    table: &'static str,
    rows: &[R],
    ids: &BTreeSet<i64>,
) -> Option<Damage> {
    for row in rows {
        if !has_id(ids, T::mailbox(row)) {
            return Some(of_row(table, row, RowFault::NoMailbox));
        }
    }
    None
}

/// Finds a mailbox that doesn't fit the others, or whose rows below it don't fit it.
fn unfit_mailbox(alloc: Global, tables: &StoredTables) -> Option<Damage>
    requires { HaveGroups tables.now }
{
    for mailbox in &tables.mailboxes {
        if let Some(fault) = fault_of(alloc, tables, mailbox) {
            return Some(of_row("mailbox", mailbox, fault));
        }
    }
    None
}

fn fault_of(alloc: Global, tables: &StoredTables, mailbox: &StoredMailbox) -> Option<RowFault>
    requires { HaveGroups tables.now }
{
    if !has_superior(tables, &mailbox.key) {
        return Some(RowFault::NoSuperior);
    }
    if !is_counted(tables, mailbox) {
        return Some(RowFault::NotCounted);
    }
    if has_no_list(alloc, tables, mailbox) {
        return Some(RowFault::List);
    }
    if is_unfit(alloc, tables, mailbox, Vec::new(alloc)) {
        return Some(RowFault::Messages);
    }
    let own = read_below(alloc, tables.marks.as_slice(), mailbox.id).ok()?;
    if is_unfit(alloc, tables, mailbox, own) {
        return Some(RowFault::Marks);
    }
    None
}

/// Whether there is a mailbox right above the name, or the name is right below the root of its tree.
fn has_superior(tables: &StoredTables, key: &MailboxKey) -> bool {
    match key.path.rsplit_once('/') {
        Some((above, _)) => tables
            .mailboxes
            .iter()
            .any(|other| is_at(&other.key, key.tree.as_str(), above)),
        None => true,
    }
}

fn is_at(key: &MailboxKey, tree: &str, path: &str) -> bool {
    key.tree.as_str() == tree && key.path.as_str() == path
}

/// Whether the UIDVALIDITY is at most the greatest that was used under the name.
fn is_counted(tables: &StoredTables, mailbox: &StoredMailbox) -> bool {
    let key = &mailbox.key;
    tables.epochs.iter().any(|epoch| {
        epoch.greatest >= mailbox.validity
            && is_at(&epoch.key, key.tree.as_str(), key.path.as_str())
    })
}

/// Whether the entries of the mailbox are those of no access control list.
fn has_no_list(alloc: Global, tables: &StoredTables, mailbox: &StoredMailbox) -> bool
    requires { HaveGroups tables.now }
{
    match read_below(alloc, tables.entries.as_slice(), mailbox.id) {
        Ok(entries) => Acl::from_entries(entries).is_none(),
        Err(_) => false,
    }
}

/// Whether the messages of the mailbox, with these own changes of users, are those of no mailbox.
fn is_unfit(
    alloc: Global,
    tables: &StoredTables,
    mailbox: &StoredMailbox,
    own: Vec<UserChange>,
) -> bool
    requires { HaveGroups tables.now }
{
    let Some(shared) = read_count(mailbox.shared) else {
        return false;
    };
    let Ok(messages) = read_below(alloc, tables.messages.as_slice(), mailbox.id) else {
        return false;
    };
    let Ok(gone) = read_below(alloc, tables.gone.as_slice(), mailbox.id) else {
        return false;
    };
    let parts = MailboxParts {
        next: mailbox.uidnext,
        shared,
        messages,
        gone,
        own,
    };
    match Mailbox::from_parts(alloc, parts) {
        Err(PartsError::Bad) => true,
        Ok(_) | Err(PartsError::Memory) => false,
    }
}
