//! The rows of a table, in the order of their mailboxes.
//!
//! Rows below mailboxes are brought into their order once, by a stable sort, and found by two searches.

ghost use Rattle.std.specs.Prelude.{◌≡◌, ◌≤◌, ℤ, false, length, take, true, IfOk, OnOk};
ghost use Rattle.std.specs.List.Sorted.{IsPartitionPoint};
ghost use Rattle.std.specs.Ordering.{int_cmp, is_le, is_lt};
ghost use Rattle.imap_restore.specs.Parts.{AreGrouped, IsFrom, IsGrouped, below};

use crate::below::Restore;
use imap_mailbox::{GoneMessage, Message, UserChange};
use imap_rights::Entry;
use imap_tables::StoredTables;
use std::alloc::AllocError;
use std::cmp::Ordering;

pub(crate) fn compare(one: i64, other: i64) -> Ordering
    ensures { result ≡ int_cmp one other }
{
    one.cmp(&other)
}

/// Brings rows into the order of their mailboxes. Those of one mailbox keep their order.
fn group<R, T: Restore<R>>(rows: &mut Vec<R>) -> Result<(), AllocError>
    ensures grouped { OnOk result (AreGrouped T.Restore.mailbox rows.new.items) }
    ensures same { (id : ℤ)
        → below T.Restore.mailbox id rows.new.items ≡ below T.Restore.mailbox id rows.old.items }
{
    rows.sort_by(
        |one: &R, other: &R| -> Ordering
            ensures { result ≡ int_cmp (T.Restore.mailbox one.now) (T.Restore.mailbox other.now) }
        { compare(T::mailbox(one), T::mailbox(other)) },
    )
}

/// The same tables, with the rows below mailboxes in the order of these.
pub(crate) fn grouped(mut tables: StoredTables) -> Result<StoredTables, AllocError>
    ensures { IfOk result (IsGrouped tables) }
{
    group::<_, Entry>(&mut tables.entries)?;
    group::<_, Message>(&mut tables.messages)?;
    group::<_, GoneMessage>(&mut tables.gone)?;
    group::<_, UserChange>(&mut tables.marks)?;
    Ok(tables)
}

/// How many rows are of mailboxes with lower ids.
fn count_lower<R, T: Restore<R>>(rows: &[R], id: i64) -> usize
    requires { AreGrouped T.Restore.mailbox rows.now }
    ensures bound { result ≤ length rows.now }
    ensures point { IsPartitionPoint (λ row. is_lt (int_cmp (T.Restore.mailbox row) id) ≡ true)
        (λ row. is_lt (int_cmp (T.Restore.mailbox row) id) ≡ false) rows.now result }
{
    rows.partition_point(
        |row: &R| -> bool
            ensures { result ≡ is_lt (int_cmp (T.Restore.mailbox row.now) id) }
        { compare(T::mailbox(row), id).is_lt() },
    )
}

/// How many rows are of the mailbox, if none is of one with a lower id.
fn count_own<R, T: Restore<R>>(rows: &[R], id: i64) -> usize
    requires grouped { AreGrouped T.Restore.mailbox rows.now }
    requires from { IsFrom T.Restore.mailbox id rows.now }
    ensures bound { result ≤ length rows.now }
    ensures own { take result rows.now ≡ below T.Restore.mailbox id rows.now }
{
    rows.partition_point(
        |row: &R| -> bool
            ensures { result ≡ is_le (int_cmp (T.Restore.mailbox row.now) id) }
        { compare(T::mailbox(row), id).is_le() },
    )
}

/// The rows of a mailbox.
pub(crate) fn rows_of<R, T: Restore<R>>(rows: &[R], id: i64) -> &[R]
    requires { AreGrouped T.Restore.mailbox rows.now }
    ensures { result.now ≡ below T.Restore.mailbox id rows.now }
{
    let (_, rest) = rows.split_at(count_lower::<R, T>(rows, id));
    let (own, _) = rest.split_at(count_own::<R, T>(rest, id));
    own
}
