//! The damaged row of a store.
//!
//! It is asked only after a keeper could not load, and no contract says which row it names.

ghost use Rattle.imap_sql_keeper.specs.Keeping.{IsAtRest};
ghost use Rattle.sqlite.specs.Held.{state};

use crate::loading::read_all;
use imap_keeper::{Damage, KeepError, RowFault};
use imap_restore::find_damage;
use imap_tables::{
    FromRow, StoredBody, StoredEntry, StoredEpoch, StoredGone, StoredHead, StoredKeyword,
    StoredMailbox, StoredMessage, StoredMeta, StoredSeenFlag, StoredSubscription,
};
use sqlite::{Alter, Connection, Error, ErrorCode, Row, Rows};
use std::alloc::Global;

/// Finds a damaged row. Returns `None` if none is found, or the tables can't be read.
pub(crate) fn damage_of<S: Alter>(conn: &mut Connection<S>, alloc: Global) -> Option<Damage>
    requires { IsAtRest (state S.Store conn.old) }
{
    match read_all(conn, alloc) {
        Ok((tables, added)) => find_damage(alloc, tables, added),
        Err(KeepError::Damaged) => unread_row(conn),
        Err(_) => None,
    }
}

/// A table of a store.
#[derive(Clone, Copy)]
enum Table {
    Mailbox,
    Message,
    Head,
    Body,
    Keyword,
    Entry,
    Gone,
    SeenFlag,
    Epoch,
    Subscription,
    Meta,
}

/// The tables of a store, each with its name and a query that reads it, its numbers first.
const TABLES: &[(Table, &str, &str)] = &[
    (
        Table::Mailbox,
        "mailbox",
        "SELECT id, tree, path, validity, uidnext, shared FROM mailbox",
    ),
    (
        Table::Message,
        "message",
        "SELECT rowid, mailbox, uid, date, octets, flags, keywords, place FROM message",
    ),
    (
        Table::Head,
        "message2",
        "SELECT rowid, mailbox, uid, date, flags, place FROM message2",
    ),
    (
        Table::Body,
        "body",
        "SELECT rowid, mailbox, uid, octets FROM body",
    ),
    (
        Table::Keyword,
        "keyword",
        "SELECT rowid, mailbox, uid, word FROM keyword",
    ),
    (
        Table::Entry,
        "acl",
        "SELECT rowid, mailbox, identifier, rights FROM acl",
    ),
    (
        Table::Gone,
        "gone",
        "SELECT rowid, mailbox, uid, place FROM gone",
    ),
    (
        Table::SeenFlag,
        "mark",
        "SELECT rowid, mailbox, user, own, before, uid, seen FROM mark",
    ),
    (
        Table::Epoch,
        "epoch",
        "SELECT rowid, tree, path, greatest FROM epoch",
    ),
    (
        Table::Subscription,
        "sub",
        "SELECT rowid, user, tree, path FROM sub",
    ),
    (Table::Meta, "meta", "SELECT rowid, key, value FROM meta"),
];

/// Finds the first row of which nothing is read.
fn unread_row<S: Alter>(conn: &mut Connection<S>) -> Option<Damage> {
    for (table, name, query) in TABLES {
        if let Some(row) = unread_in(conn, *table, query) {
            return Some(Damage {
                table: name,
                row,
                fault: RowFault::Value,
            });
        }
    }
    None
}

/// Returns the number of the first row of the table of which nothing is read.
fn unread_in<S: Alter>(conn: &mut Connection<S>, table: Table, query: &str) -> Option<i64> {
    let mut rows = conn.query(query, &[]).ok()?;
    first_unread(&mut rows, table)
}

/// Returns the number in the first column of the first row of which nothing is read, and 0 if none is there.
fn first_unread<S: Alter>(rows: &mut Rows<'_, S>, table: Table) -> Option<i64> {
    for _ in 0..u64::MAX {
        let Ok(Some(row)) = rows.next() else {
            return None;
        };
        if is_unread(table, row) {
            return Some(row.get(0).unwrap_or(0));
        }
    }
    None
}

/// Whether nothing is read of a row of the table.
fn is_unread(table: Table, row: &Row) -> bool {
    match table {
        Table::Mailbox => is_unread_as::<StoredMailbox>(row),
        Table::Message => is_unread_as::<StoredMessage>(row),
        Table::Head => is_unread_as::<StoredHead>(row),
        Table::Body => is_unread_as::<StoredBody>(row),
        Table::Keyword => is_unread_as::<StoredKeyword>(row),
        Table::Entry => is_unread_as::<StoredEntry>(row),
        Table::Gone => is_unread_as::<StoredGone>(row),
        Table::SeenFlag => is_unread_as::<StoredSeenFlag>(row),
        Table::Epoch => is_unread_as::<StoredEpoch>(row),
        Table::Subscription => is_unread_as::<StoredSubscription>(row),
        Table::Meta => is_unread_as::<StoredMeta>(row),
    }
}

/// Whether nothing is read of a row as an `R`.
fn is_unread_as<R: FromRow>(row: &Row) -> bool {
    match R::read(row) {
        Ok(_) | Err(Error::SqliteFailure(ErrorCode::OutOfMemory)) => false,
        Err(_) => true,
    }
}
