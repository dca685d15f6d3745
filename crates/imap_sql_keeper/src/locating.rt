//! Of what a row of a store is: of which mailbox, and of which message.
//!
//! It is asked for a damaged row, and no contract says what is found.

use imap_keeper::Damage;
use sqlite::{Alter, Connection, Row, params};
use std::alloc::Global;

/// A damaged row, and of what it is, as far as its store says so.
#[derive(Drop)]
pub struct Finding {
    pub damage: Damage,
    /// The tree and the path of its mailbox, as the tables have them.
    pub mailbox: Option<(String, String)>,
    /// The UID of its message.
    pub uid: Option<u32>,
}

/// The query for the mailbox and the UID of a row. The UID is 0 where the table has none.
fn query_of(table: &str) -> Option<&'static str> {
    match table {
        "mailbox" => Some("SELECT id, 0 FROM mailbox WHERE id = ?1"),
        "acl" => Some("SELECT mailbox, 0 FROM acl WHERE rowid = ?1"),
        "message" => Some("SELECT mailbox, uid FROM message WHERE rowid = ?1"),
        "message2" => Some("SELECT mailbox, uid FROM message2 WHERE rowid = ?1"),
        "body" => Some("SELECT mailbox, uid FROM body WHERE rowid = ?1"),
        "keyword" => Some("SELECT mailbox, uid FROM keyword WHERE rowid = ?1"),
        "gone" => Some("SELECT mailbox, uid FROM gone WHERE rowid = ?1"),
        "mark" => Some("SELECT mailbox, uid FROM mark WHERE rowid = ?1"),
        _ => None,
    }
}

/// Returns the row of a query for a number, if there is one.
fn row_of<S: Alter>(conn: &mut Connection<S>, query: &str, number: i64) -> Option<Row> {
    conn.query_row(query, params![number]).ok()
}

/// Reads the id of a mailbox, and a UID that isn't 0.
fn place_in(row: &Row) -> Option<(i64, Option<u32>)> {
    let mailbox: i64 = row.get(0).ok()?;
    let uid: u32 = row.get(1).unwrap_or(0);
    Some((mailbox, if uid == 0 { None } else { Some(uid) }))
}

/// Finds the id of the row's mailbox, and the UID of its message.
fn place_of<S: Alter>(conn: &mut Connection<S>, damage: &Damage) -> Option<(i64, Option<u32>)> {
    let query = query_of(damage.table)?;
    let row = row_of(conn, query, damage.row)?;
    place_in(&row)
}

/// Reads a tree and a path.
fn name_in(row: &Row) -> Option<(String, String)> {
    let tree: String = row.get(0).ok()?;
    let path: String = row.get(1).ok()?;
    Some((tree, path))
}

/// Finds the tree and the path of a mailbox.
fn name_of<S: Alter>(conn: &mut Connection<S>, mailbox: i64) -> Option<(String, String)> {
    let row = row_of(
        conn,
        "SELECT tree, path FROM mailbox WHERE id = ?1",
        mailbox,
    )?;
    name_in(&row)
}

/// Finds of what a damaged row is.
pub(crate) fn locate<S: Alter>(conn: &mut Connection<S>, damage: Damage) -> Finding {
    match place_of(conn, &damage) {
        Some((mailbox, uid)) => Finding {
            damage,
            mailbox: name_of(conn, mailbox),
            uid,
        },
        None => Finding {
            damage,
            mailbox: None,
            uid: None,
        },
    }
}
