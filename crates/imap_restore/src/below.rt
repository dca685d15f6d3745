//! The rows below one mailbox.

ghost use Rattle.std.specs.Prelude.{◌≡◌, ℤ, true, List, Err, IfOk, string_bytes};
ghost use Rattle.std.specs.List.{AllZip};
ghost use Rattle.std.specs.Str.{is_utf8};
ghost use Rattle.imap_restore.specs.Parts.{AreGrouped, below};
ghost use Rattle.imap_stored_values.specs.Restored.{HasRights, IsAnEntry, IsFit, IsGoneFor, IsMarkFor, IsRowFor};

use crate::grouping::rows_of;
use imap_mailbox::{GoneMessage, Message, PartsError, UserChange};
use imap_rights::Entry;
use imap_stored_values::{read_change, read_entry, read_gone, read_message};
use imap_tables::{StoredEntry, StoredGone, StoredMessage, StoredSeenFlag};
use std::alloc::Global;

/// A value that is read again from a row below a mailbox.
pub trait Restore<R>: Sized + Drop {
    /// It is kept by the row.
    ghost is_for: { R → Self → Type 0 };

    /// The id of the mailbox.
    ghost mailbox: { R → ℤ };

    /// Returns the id of the mailbox.
    fn mailbox(row: &R) -> i64
        ensures { result ≡ mailbox row.now };

    /// Reads it. Fails with `Bad` if the row keeps nothing.
    fn restore(alloc: Global, row: &R) -> Result<Self, PartsError>
        ensures ok { IfOk result (is_for row.now) }
        ensures bad { result ≡ Err PartsError.Bad → (it : Self) → is_for row.now it → ⊥ };
}

impl Restore<StoredEntry> for Entry {
    ghost is_for = { λ row it. HasRights (string_bytes row.identifier) row.rights it × IsAnEntry it };

    ghost mailbox = { λ row. row.mailbox };

    fn mailbox(row: &StoredEntry) -> i64 {
        row.mailbox
    }

    fn restore(alloc: Global, row: &StoredEntry) -> Result<Entry, PartsError> {
        read_entry(alloc, &row.identifier, row.rights)
    }
}

impl Restore<StoredMessage> for Message {
    ghost is_for = { λ row it. IsRowFor row.row it × IsFit it };

    ghost mailbox = { λ row. row.mailbox };

    fn mailbox(row: &StoredMessage) -> i64 {
        row.mailbox
    }

    fn restore(alloc: Global, row: &StoredMessage) -> Result<Message, PartsError> {
        read_message(alloc, &row.row)
    }
}

impl Restore<StoredGone> for GoneMessage {
    ghost is_for = { λ row it. IsGoneFor row.uid row.place it };

    ghost mailbox = { λ row. row.mailbox };

    fn mailbox(row: &StoredGone) -> i64 {
        row.mailbox
    }

    fn restore(_alloc: Global, row: &StoredGone) -> Result<GoneMessage, PartsError> {
        match read_gone(row.uid, row.place) {
            Some(message) => Ok(message),
            None => Err(PartsError::Bad),
        }
    }
}

impl Restore<StoredSeenFlag> for UserChange {
    ghost is_for = { λ row it. IsMarkFor row.row it × (is_utf8 it.user ≡ true) };

    ghost mailbox = { λ row. row.mailbox };

    fn mailbox(row: &StoredSeenFlag) -> i64 {
        row.mailbox
    }

    fn restore(alloc: Global, row: &StoredSeenFlag) -> Result<UserChange, PartsError> {
        read_change(alloc, &row.row)
    }
}

/// Reads the rows, in their order. Fails with `Bad` if one of them keeps nothing.
#[tactic(auto, using(crate::proofs::Zipped::read_start))]
fn read_all<R, T: Restore<R>>(alloc: Global, rows: &[R]) -> Result<Vec<T>, PartsError>
    ensures ok { IfOk result (λ items. AllZip T.Restore.is_for rows.now items.items) }
    ensures bad { result ≡ Err PartsError.Bad
        → (items : List T) → AllZip T.Restore.is_for rows.now items → ⊥ }
{
    let mut items = Vec::with_capacity(alloc, rows.len())?;
    'rows: for row in rows {
        let item = match T::restore(alloc, row) {
            Ok(item) => item,
            Err(error) => return Err(error),
        };
        let Ok(()) = items.push(item) else {
            return Err(PartsError::Memory);
        };
    }
    Ok(items)
}

/// Reads all that is below a mailbox, in the order of the rows. Fails with `Bad` if one of its rows keeps
/// nothing. The rows are in the order of their mailboxes, so that those of one are found by two searches.
pub fn read_below<R, T: Restore<R>>(
    alloc: Global,
    rows: &[R],
    id: i64,
) -> Result<Vec<T>, PartsError>
    requires { AreGrouped T.Restore.mailbox rows.now }
    ensures ok { IfOk result (λ items.
        AllZip T.Restore.is_for (below T.Restore.mailbox id rows.now) items.items) }
    ensures bad { result ≡ Err PartsError.Bad → (items : List T)
        → AllZip T.Restore.is_for (below T.Restore.mailbox id rows.now) items → ⊥ }
{
    read_all(alloc, rows_of::<R, T>(rows, id))
}
