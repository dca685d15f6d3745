//! Rows that are marked, one after another.

ghost use Rattle.std.specs.Prelude.{◌≡◌, ◌+◌, ◌≤◌, ℕ, List, ◌∷◌, true, false, is_some};
ghost use Rattle.imap_modseq.specs.Numbers.{max_events};
ghost use Rattle.imap_mailbox.specs.Lent.{row_shown};
ghost use Rattle.imap_mailbox.specs.Rows as specs;
ghost use Rattle.imap_batch.specs.Batch.{one_if};
ghost use Rattle.imap_batch.specs.Planned.{own_after, row_with_flags, row_with_seen, row_marked};
ghost use Rattle.imap_batch.specs.Planned.{marked_by, with_first, CanMark};
ghost use Rattle.imap_batch.specs.Untouched.{IsBefore, IsBeforeMarks};

use crate::batch::FlagUpdate;
use imap_mailbox::{Row, SharedFlags};
use imap_modseq::{MAX_EVENTS, number_after};

/// The marks of a batch that are left, and the numbers of shared events and own changes before them.
#[derive(Clone, Copy)]
pub(crate) struct MarksLeft<'a> {
    pub marks: &'a [FlagUpdate],
    pub shared: u64,
    pub own: u64,
}

/// Returns the number of own changes after a change of the user's own `\Seen`, if there is one.
pub(crate) fn own_after(own: u64, seen: Option<bool>) -> u64
    requires { own ≤ max_events }
    ensures own { result ≡ own_after own seen }
    ensures most { result ≤ max_events }
{
    match seen {
        Some(_) => {
            if own < MAX_EVENTS {
                return own + 1;
            }
            own
        }
        None => own,
    }
}

fn same_row<'a>(row: &Row<'a>) -> Row<'a>
    ensures { row_shown result ≡ row_shown row.now }
{
    Row {
        uid: row.uid,
        date: row.date,
        octets: row.octets,
        flags: row.flags,
        seen: row.seen,
        number: row.number,
    }
}

/// Returns the row with other shared flags, if there are some.
fn with_flags<'a>(row: &Row<'a>, number: u64, flags: &'a Option<SharedFlags>) -> Row<'a>
    ensures { row_shown result ≡ row_with_flags number flags.now (row_shown row.now) }
{
    match flags {
        Some(flags) => Row {
            uid: row.uid,
            date: row.date,
            octets: row.octets,
            flags,
            seen: row.seen,
            number,
        },
        None => same_row(row),
    }
}

/// Returns the row after a change of the user's own `\Seen`, if there is one and the user has an event left.
pub(crate) fn with_seen<'a>(row: &Row<'a>, own: u64, number: u64, seen: Option<bool>) -> Row<'a>
    ensures { row_shown result ≡ row_with_seen own number seen (row_shown row.now) }
{
    match seen {
        Some(seen) => {
            if own < MAX_EVENTS {
                return seen_row(row, number, seen);
            }
            same_row(row)
        }
        None => same_row(row),
    }
}

fn seen_row<'a>(row: &Row<'a>, number: u64, seen: bool) -> Row<'a>
    ensures { row_shown result ≡ record {
      uid = row.now.uid;
      date = row.now.date;
      octets = row.now.octets.now;
      flags = row.now.flags.now;
      seen = seen;
      number = number;
    } }
{
    Row {
        uid: row.uid,
        date: row.date,
        octets: row.octets,
        flags: row.flags,
        seen,
        number,
    }
}

/// Returns the number of shared events of a mark.
fn flag_events(mark: &FlagUpdate) -> u64
    ensures count { result ≡ one_if (is_some mark.now.flags) }
    ensures most { result ≤ 1 }
{
    match mark.flags {
        Some(_) => 1,
        None => 0,
    }
}

fn mark_row<'a>(row: &Row<'a>, mark: &'a FlagUpdate, shared: u64, own: u64) -> Row<'a>
    requires shared { shared + one_if (is_some mark.now.flags) ≤ max_events }
    requires own { own ≤ max_events }
    ensures { row_shown result ≡ row_marked shared own mark.now (row_shown row.now) }
{
    let flagged = with_flags(row, number_after(shared, own), &mark.flags);
    let later = shared + flag_events(mark);
    with_seen(&flagged, own, number_after(later, own), mark.seen)
}

/// Returns the row with the first of the marks, if that is of its UID.
pub(crate) fn with_first<'a>(row: &Row<'a>, marks: &MarksLeft<'a>) -> Row<'a>
    requires { CanMark marks.now }
    ensures { row_shown result ≡ with_first marks.now (row_shown row.now) }
{
    match marks.marks.first() {
        Some(mark) => {
            if mark.uid != row.uid {
                return same_row(row);
            }
            mark_row(row, mark, marks.shared, marks.own)
        }
        None => same_row(row),
    }
}

/// Whether the first of the marks is of the UID.
pub(crate) fn is_marked(uid: u32, marks: &MarksLeft) -> bool
    ensures { (row : specs.Row) → row.uid ≡ uid → result ≡ false → with_first marks.now row ≡ row }
{
    match marks.marks.first() {
        Some(mark) => mark.uid == uid,
        None => false,
    }
}

/// Returns the UID of the first of the marks, if there is one.
pub(crate) fn first_mark(marks: &MarksLeft<'_>) -> Option<u32>
    ensures { (uid : ℕ) → IsBefore uid result → IsBeforeMarks uid marks.now.marks.now }
{
    match marks.marks.first() {
        Some(mark) => Some(mark.uid),
        None => None,
    }
}

/// Returns the marks that are left after the message with the UID.
pub(crate) fn marks_after<'a>(uid: u32, marks: &MarksLeft<'a>) -> MarksLeft<'a>
    requires { CanMark marks.now }
    ensures rows { (row : specs.Row) (rows : List specs.Row) → row.uid ≡ uid
        → marked_by marks.now (row ∷ rows) ≡ with_first marks.now row ∷ marked_by result rows }
    ensures marks { CanMark result }
{
    match marks.marks.split_first() {
        Some((mark, rest)) => {
            if mark.uid != uid {
                return *marks;
            }
            MarksLeft {
                marks: rest,
                shared: marks.shared + flag_events(mark),
                own: own_after(marks.own, mark.seen),
            }
        }
        None => *marks,
    }
}
