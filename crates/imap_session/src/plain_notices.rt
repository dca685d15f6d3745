//! The lines of notices, by comparing whole lists.

ghost use Rattle.std.specs.Prelude.{◌≡◌, ◌+◌, ◌<◌, ◌≤◌, not, ◌&&◌, if◌then◌else◌, IfOk, OnOk, MatchOption};
ghost use Rattle.std.specs.Prelude.{List, [], ◌∷◌, ◌++◌, length};
ghost use Rattle.imap_mailbox.specs.Rows.{Row};
ghost use Rattle.imap_mailbox.specs.Brought.{told_of};
ghost use Rattle.imap_session.specs.Compared.{comparisons, is_known, new_rows, uids_after};
ghost use Rattle.imap_session.specs.Held.{UidsRise, uid_limit};
ghost use Rattle.imap_session.specs.Notices as specs;
ghost use Rattle.imap_session.specs.Walked.{collected};

use crate::known_list::KnownList;
use crate::lines::{fetch_line, vanished_lines, with_exists};
use crate::mailbox_rows::MailboxRows;
use crate::notices::joined;
use crate::options::NoticeOptions;
use crate::row_cursor::RowCursor;
use imap_mailbox::Rows;
use imap_print::Response;
use std::alloc::{AllocError, Global};

/// The number of messages from which on a message sequence number may have no room.
const TOO_MANY: usize = 4_294_967_295;

/// Returns the lines of [`KnownList::notices`] after a command whose own lines told nothing. The session was told all
/// up to the mod-sequence `up_to`. Looks at all messages that are known and at all of `rows`, and is meant for tests,
/// which lay the quick way beside it.
/// Returns `None` if known messages and rows together are too many for message sequence numbers.
pub fn notices_plain(
    alloc: Global,
    known: &KnownList,
    rows: &Rows<'_>,
    options: &NoticeOptions,
    up_to: u64,
) -> Result<Option<Vec<Response>>, AllocError>
    ensures { IfOk result (λ told. MatchOption told
        (uid_limit ≤ length known.now.list + length rows.now + 1)
        (λ lines. lines.items ≡ specs.notices options.now up_to [] known.now.list rows.now)) }
{
    if known.len().saturating_add(rows.len()) >= TOO_MANY {
        return Ok(None);
    }
    let lines = all_lines(alloc, known.uids(), rows, options, up_to)?;
    Ok(Some(lines))
}

fn all_lines(
    alloc: Global,
    known: &[u32],
    rows: &Rows<'_>,
    options: &NoticeOptions,
    up_to: u64,
) -> Result<Vec<Response>, AllocError>
    requires few { length known.now + length rows.now + 1 < uid_limit }
    requires uids { UidsRise known.now }
    ensures { IfOk result (λ lines. lines.items ≡ specs.notices options.now up_to [] known.now rows.now) }
{
    let front = expunge_notices(alloc, known, rows, options)?;
    let (fetches, number) = fetch_lines(alloc, known, rows, options, up_to)?;
    let lines = with_exists(front, number - 1, new_len(known, rows))?;
    let lines = joined(lines, fetches)?;
    Ok(lines)
}

/// Returns the lines of expunged messages, if these may be told.
fn expunge_notices(
    alloc: Global,
    known: &[u32],
    rows: &Rows<'_>,
    options: &NoticeOptions,
) -> Result<Vec<Response>, AllocError>
    requires few { length known.now + 1 < uid_limit }
    requires uids { UidsRise known.now }
    ensures { IfOk result (λ lines. lines.items
        ≡ specs.expunge_notices options.now (comparisons known.now rows.now)) }
{
    if !options.expunges {
        return Ok(Vec::new(alloc));
    }
    if options.qresync {
        let uids = expunged_uids(alloc, known, rows)?;
        return vanished_lines(alloc, uids);
    }
    expunge_lines(alloc, known, rows)
}

fn expunged_uids(alloc: Global, known: &[u32], rows: &Rows<'_>) -> Result<Vec<u32>, AllocError>
    ensures { IfOk result (λ uids. uids.items
        ≡ specs.expunged_uids (comparisons known.now rows.now)) }
{
    let mut uids = Vec::new(alloc);
    let mut left = MailboxRows::new(rows);
    for uid in known {
        if left.is_next(*uid) {
            left.skip();
            continue;
        }
        uids.push(*uid)?;
    }
    Ok(uids)
}

fn expunge_lines(alloc: Global, known: &[u32], rows: &Rows<'_>) -> Result<Vec<Response>, AllocError>
    requires { length known.now + 1 < uid_limit }
    ensures { IfOk result (λ lines. lines.items
        ≡ specs.expunge_lines 1 (comparisons known.now rows.now)) }
{
    let mut lines = Vec::new(alloc);
    let mut number: u32 = 1;
    let mut left = MailboxRows::new(rows);
    for uid in known {
        if left.is_next(*uid) {
            left.skip();
            number += 1;
            continue;
        }
        lines.push(Response::Expunge(number))?;
    }
    Ok(lines)
}

/// Returns the number of messages after the known ones.
fn new_len(known: &[u32], rows: &Rows<'_>) -> usize
    ensures count { result ≡ length (new_rows known.now rows.now) }
    ensures within { result ≤ length rows.now }
{
    let mut left = MailboxRows::new(rows);
    for uid in known {
        if !left.is_next(*uid) {
            continue;
        }
        left.skip();
    }
    left.len()
}

/// Returns the FETCH lines, and the message sequence number after that of the last known message.
fn fetch_lines(
    alloc: Global,
    known: &[u32],
    rows: &Rows<'_>,
    options: &NoticeOptions,
    up_to: u64,
) -> Result<(Vec<Response>, u32), AllocError>
    requires { length known.now + 1 < uid_limit }
    ensures lines { IfOk result (λ told. told.0.items
        ≡ specs.fetch_lines options.now up_to [] 1 (comparisons known.now rows.now)) }
    ensures number { IfOk result (λ told. told.1
        ≡ 1 + length (uids_after options.now.expunges (comparisons known.now rows.now))) }
    ensures within { IfOk result (λ told. told.1 ≤ length known.now + 1) }
{
    let mut lines = Vec::new(alloc);
    let mut number: u32 = 1;
    let mut left = MailboxRows::new(rows);
    for uid in known {
        if left.is_next(*uid) {
            push_changed(&mut lines, alloc, number, &left, options, up_to)?;
            left.skip();
            number += 1;
            continue;
        }
        number = number_after(number, options);
    }
    Ok((lines, number))
}

/// The number of the next message after an expunged one.
fn number_after(number: u32, options: &NoticeOptions) -> u32
    requires { number + 1 < uid_limit }
    ensures { result ≡ (if options.now.expunges then number else number + 1) }
{
    if options.expunges { number } else { number + 1 }
}

/// Appends the FETCH line of the next message, if its mod-sequence is above `up_to`.
fn push_changed<C: RowCursor>(
    lines: &mut Vec<Response>,
    alloc: Global,
    number: u32,
    rows: &C,
    options: &NoticeOptions,
    up_to: u64,
) -> Result<(), AllocError>
    requires { 0 < length (C.rest rows.now) }
    ensures { OnOk result ((r : Row) (later : List Row) → C.rest rows.now ≡ r ∷ later
        → lines.new.items ≡ lines.old.items ++ collected (not (is_known up_to r))
        (specs.fetch_line options.now number (told_of r) ∷ [])) }
{
    let message = rows.message(alloc)?;
    if message.number <= up_to {
        return Ok(());
    }
    let line = fetch_line(alloc, number, &message, options.condstore)?;
    lines.push(line)?;
    Ok(())
}
