//! FETCH lines of the messages that changed (RFC 7162, section 3.2.5.1).

ghost use Rattle.std.specs.Prelude.{◌≡◌, ◌+◌, ◌++◌, ◌<◌, length, IfOk, OnOk};
ghost use Rattle.std.specs.List.{AllByRecursion};
ghost use Rattle.imap_mailbox.specs.Lent.{row_shown, row_uids};
ghost use Rattle.imap_mailbox.specs.Order.{AreRowsInOrder};
ghost use Rattle.imap_mailbox.specs.Rows.{first_uid};
ghost use Rattle.imap_mailbox.specs.Summary.{Rises};
ghost use Rattle.imap_print.specs.Lines.{IsPrintable};
ghost use Rattle.imap_resync.specs.Select as specs;

use crate::uid_set::{UidSet, includes};
use imap_mailbox::{KnownMessage, Near, Row, Rows};
use imap_print::Response;
use imap_targets::fetch_line;
use imap_view::Readable;
use std::alloc::{AllocError, Global};

/// Returns a line for each message of `uids` whose mod-sequence is greater than `since`. `None` stands for all
/// messages. Walks nothing if HIGHESTMODSEQ isn't greater.
pub(crate) fn changed_lines(
    alloc: Global,
    mailbox: &Readable<'_>,
    since: u64,
    uids: &Option<UidSet<'_>>,
) -> Result<Vec<Response>, AllocError>
    requires { AreRowsInOrder mailbox.now.next_uid mailbox.now.highest mailbox.now.rows }
    ensures lines { let meant = specs.changed_lines since uids.now 1 mailbox.now.rows in
        IfOk result (λ lines. lines.items ≡ meant) }
    ensures printable { IfOk result (λ lines. AllByRecursion IsPrintable lines.items) }
{
    if mailbox.highest <= since {
        return Ok(Vec::new(alloc));
    }
    lines_of_rows(alloc, &mailbox.rows, mailbox.next_uid, since, uids)
}

fn lines_of_rows(
    alloc: Global,
    rows: &Rows<'_>,
    next_uid: u32,
    since: u64,
    uids: &Option<UidSet<'_>>,
) -> Result<Vec<Response>, AllocError>
    requires { Rises first_uid next_uid (row_uids rows.now) }
    ensures lines { IfOk result (λ lines. lines.items ≡ specs.changed_lines since uids.now 1 rows.now) }
    ensures printable { IfOk result (λ lines. AllByRecursion IsPrintable lines.items) }
{
    let mut lines = Vec::new(alloc);
    let mut near = Near::start();
    for place in 0..rows.len() {
        let number = number_at(rows, next_uid, place);
        let row = rows.get_near(place, &mut near);
        push_if_changed(&mut lines, alloc, number, &row, since, uids)?;
    }
    Ok(lines)
}

/// The number of the message at the place. Each has a UID below UIDNEXT.
fn number_at(rows: &Rows<'_>, next_uid: u32, place: usize) -> u32
    requires rise { Rises first_uid next_uid (row_uids rows.now) }
    requires within { place < length rows.now }
    ensures { result ≡ place + 1 }
{
    let _count = rows.len();
    place as u32 + 1
}

/// Appends the line of the message, if it changed and is one of `uids`.
fn push_if_changed(
    lines: &mut Vec<Response>,
    alloc: Global,
    number: u32,
    row: &Row<'_>,
    since: u64,
    uids: &Option<UidSet<'_>>,
) -> Result<(), AllocError>
    ensures lines { let line = specs.line_if_changed since uids.now number (row_shown row.now) in
        OnOk result (lines.new.items ≡ lines.old.items ++ line) }
    ensures printable { OnOk result (AllByRecursion IsPrintable lines.old.items
        → AllByRecursion IsPrintable lines.new.items) }
{
    if is_changed(row, since, uids) {
        lines.push(changed_line(alloc, number, row)?)?;
    }
    Ok(())
}

fn is_changed(row: &Row<'_>, since: u64, uids: &Option<UidSet<'_>>) -> bool
    ensures { result ≡ specs.is_changed since uids.now (row_shown row.now) }
{
    since < row.number && includes(uids, row.uid)
}

fn changed_line(alloc: Global, number: u32, row: &Row<'_>) -> Result<Response, AllocError>
    ensures line { IfOk result (λ line. line ≡ specs.changed_line number (row_shown row.now)) }
    ensures printable { IfOk result IsPrintable }
{
    let message = KnownMessage::of_row(alloc, row)?;
    fetch_line(alloc, number, &message, true)
}
