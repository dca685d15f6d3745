//! The rows below one mailbox, taken from the end of a table.
//!
//! What is read of a row takes the room of the row: the rows of a table and all that is read of them are never in
//! memory at once.

ghost use Rattle.std.specs.Prelude.{◌≡◌, ◌++◌, ◌∷◌, ◌<◌, [], List, Err, IfNone, IfOk, IfSome, OnOk, length, reverse, true};
ghost use Rattle.std.specs.List.{AllZip};
ghost use Rattle.std.specs.Ordering.{int_eq};
ghost use Rattle.imap_restore.specs.Parts.{AreGrouped, LeavesOthers, ReadsEnd, below, is_first_below};

use crate::below::{Restore, read_below};
use crate::grouping::{compare, rows_of};
use imap_mailbox::PartsError;
use imap_message_tables::take_last;
use imap_values::joined;
use std::alloc::{AllocError, Global};

/// Whether the last row is below the mailbox.
fn is_last_below<R, T: Restore<R>>(rows: &[R], id: i64) -> bool
    ensures { result ≡ is_first_below T.Restore.mailbox id (reverse rows.now) }
{
    match rows.last() {
        Some(row) => compare(T::mailbox(row), id).is_eq(),
        None => false,
    }
}

/// Takes the last row, if it is below the mailbox.
fn take_row<R, T: Restore<R>>(rows: &mut Vec<R>, id: i64) -> Option<R>
    ensures some { IfSome result (λ row. (rows.old.items ≡ rows.new.items ++ row ∷ [])
        × (int_eq (T.Restore.mailbox row) id ≡ true)) }
    ensures none { IfNone result (rows.new.items ≡ rows.old.items) }
    ensures fewer { IfSome result (λ _. length rows.new.items < length rows.old.items) }
{
    if is_last_below::<R, T>(rows.as_slice(), id) {
        take_last(rows)
    } else {
        None
    }
}

/// Takes the rows of the mailbox that are at the end of the table, and reads them, the last first, into a list with
/// this room. Fails with `Bad` if one of them keeps nothing.
#[tactic(auto, using(crate::proofs::Zipped::read_start, crate::proofs::Taken::leaves_start))]
fn take_end<R: Drop, T: Restore<R>>(
    alloc: Global,
    rows: &mut Vec<R>,
    id: i64,
    room: usize,
) -> Result<Vec<T>, PartsError>
    ensures read { IfOk result (λ items. ReadsEnd T.Restore.is_for T.Restore.mailbox id
        rows.old.items rows.new.items items.items) }
    ensures left { OnOk result (LeavesOthers T.Restore.mailbox id rows.old.items rows.new.items) }
    ensures bad { result ≡ Err PartsError.Bad → (items : List T)
        → AllZip T.Restore.is_for (below T.Restore.mailbox id rows.old.items) items → ⊥ }
{
    let mut items = Vec::with_capacity(alloc, room)?;
    'rows: while let Some(row) = take_row::<R, T>(rows, id) {
        let item = match T::restore(alloc, &row) {
            Ok(item) => item,
            Err(error) => return Err(error),
        };
        let Ok(()) = items.push(item) else {
            return Err(PartsError::Memory);
        };
    }
    Ok(items)
}

/// Returns the items of `first`, then those of `last`.
fn put_before<T: Drop>(first: Vec<T>, last: Vec<T>) -> Result<Vec<T>, AllocError>
    ensures { IfOk result (λ all. all.items ≡ first.items ++ last.items) }
{
    match first.as_slice() {
        [] => Ok(last),
        _ => joined(first, last),
    }
}

/// Reads all that is below a mailbox, in the order of the rows, and takes those rows that are at the end of the
/// table. Fails with `Bad` if one of the rows keeps nothing.
pub(crate) fn take_below<R: Drop, T: Restore<R>>(
    alloc: Global,
    rows: &mut Vec<R>,
    id: i64,
) -> Result<Vec<T>, PartsError>
    requires { AreGrouped T.Restore.mailbox rows.old.items }
    ensures ok { IfOk result (λ items.
        AllZip T.Restore.is_for (below T.Restore.mailbox id rows.old.items) items.items) }
    ensures left { OnOk result (LeavesOthers T.Restore.mailbox id rows.old.items rows.new.items) }
    ensures bad { result ≡ Err PartsError.Bad → (items : List T)
        → AllZip T.Restore.is_for (below T.Restore.mailbox id rows.old.items) items → ⊥ }
{
    let room = rows_of::<R, T>(rows.as_slice(), id).len();
    let mut last = match take_end::<R, T>(alloc, rows, id, room) {
        Ok(last) => last,
        Err(error) => return Err(error),
    };
    last.reverse();
    let first = match read_below::<R, T>(alloc, rows.as_slice(), id) {
        Ok(first) => first,
        Err(error) => return Err(error),
    };
    match put_before(first, last) {
        Ok(items) => Ok(items),
        Err(_) => Err(PartsError::Memory),
    }
}
