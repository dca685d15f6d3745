//! The damaged row of the three tables of messages.
//!
//! As in `diagnosing`, no contract says which row is named: it is tested.

use crate::diagnosing::of_row;
use imap_keeper::{Damage, RowFault};
use imap_mailbox::PartsError;
use imap_stored_values::read_flags;
use imap_tables::{AddedTables, FromRow, StoredBody, StoredHead, StoredKeyword};
use std::alloc::{AllocError, Global};
use std::collections::BTreeSet;

/// The mailbox and the UID of a message.
type MessageKey = (i64, u32);

/// A row of a message.
trait OfMessage: FromRow {
    fn key(&self) -> MessageKey;
}

impl OfMessage for StoredHead {
    fn key(&self) -> MessageKey {
        (self.mailbox, self.uid)
    }
}

impl OfMessage for StoredBody {
    fn key(&self) -> MessageKey {
        (self.mailbox, self.uid)
    }
}

impl OfMessage for StoredKeyword {
    fn key(&self) -> MessageKey {
        (self.mailbox, self.uid)
    }
}

fn keys_of<R: OfMessage>(alloc: Global, rows: &[R]) -> Result<BTreeSet<MessageKey>, AllocError> {
    let mut keys = Vec::with_capacity(alloc, rows.len())?;
    for row in rows {
        keys.push(row.key())?;
    }
    let keys: BTreeSet<MessageKey> = keys.into_iter().collect(alloc)?;
    Ok(keys)
}

/// Finds a row of a message that has none of these keys.
fn row_without<R: OfMessage>(
    table: &'static str,
    rows: &[R],
    keys: &BTreeSet<MessageKey>,
) -> Option<Damage> {
    for row in rows {
        if !keys.contains(&row.key()) {
            return Some(of_row(table, row, RowFault::Value));
        }
    }
    None
}

/// Finds a row with a word that is no keyword.
fn bad_keyword(alloc: Global, rows: &[StoredKeyword]) -> Option<Damage> {
    for row in rows {
        if is_no_keyword(alloc, &row.word) {
            return Some(of_row("keyword", row, RowFault::Value));
        }
    }
    None
}

fn is_no_keyword(alloc: Global, word: &str) -> bool {
    if word.is_empty() || word.contains(' ') {
        return true;
    }
    match read_flags(alloc, 0, word) {
        Err(PartsError::Bad) => true,
        Ok(_) | Err(PartsError::Memory) => false,
    }
}

/// Finds a word that is no keyword, octets or a keyword without a message, or a message without octets.
pub(crate) fn damage_in_three(alloc: Global, tables: &AddedTables) -> Option<Damage> {
    if let Some(damage) = bad_keyword(alloc, &tables.keywords) {
        return Some(damage);
    }
    let heads = keys_of(alloc, &tables.heads).ok()?;
    if let Some(damage) = row_without("body", &tables.bodies, &heads) {
        return Some(damage);
    }
    if let Some(damage) = row_without("keyword", &tables.keywords, &heads) {
        return Some(damage);
    }
    let bodies = keys_of(alloc, &tables.bodies).ok()?;
    row_without("message2", &tables.heads, &bodies)
}
