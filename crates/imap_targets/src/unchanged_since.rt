//! The messages that a command leaves as they are by UNCHANGEDSINCE (RFC 7162, section 3.1.3).

ghost use Rattle.std.specs.Prelude.{◌≡◌, IfOk, not, option_map};
ghost use Rattle.imap_mailbox.specs.Lent.{row_shown};
ghost use Rattle.imap_targets.specs.MessageNumbers.{number_by};
ghost use Rattle.imap_targets.specs.UnchangedSince as specs;

use crate::message_numbers::{Numbered, row_with};
use imap_mailbox::{Row, Rows};
use imap_syntax::Numbering;
use std::alloc::{AllocError, Global};

/// Returns the numbers of the messages that are left as they are, or their UIDs, by `numbering`.
pub fn skipped_numbers(
    alloc: Global,
    numbering: Numbering,
    since: Option<u64>,
    rows: &Rows<'_>,
    messages: &[Numbered],
) -> Result<Vec<u32>, AllocError>
    ensures { let meant = specs.skipped_numbers numbering since rows.now messages.now in
        IfOk result (λ skipped. skipped.items ≡ meant) }
{
    let mut skipped = Vec::new(alloc);
    for message in messages {
        if is_skipped(since, rows, message) {
            skipped.push(number_by(numbering, message))?;
        }
    }
    Ok(skipped)
}

/// Removes the messages that are left as they are.
pub fn remove_skipped(messages: &mut Vec<Numbered>, since: Option<u64>, rows: &Rows<'_>)
    ensures { messages.new.items ≡ specs.unskipped since rows.now messages.old.items }
{
    messages.retain(
        |message: &Numbered| -> bool
            ensures { result ≡ not (specs.is_skipped since rows.entry.now message.now) }
        { !is_skipped(since, rows, message) },
    );
}

/// Whether the message is there and was changed after `since`, if that is given.
fn is_skipped(since: Option<u64>, rows: &Rows<'_>, message: &Numbered) -> bool
    ensures { result ≡ specs.is_skipped since rows.now message.now }
{
    match since {
        Some(since) => is_later(since, &row_with(rows, message.uid)),
        None => false,
    }
}

fn is_later(since: u64, row: &Option<Row<'_>>) -> bool
    ensures { result ≡ specs.is_later since (option_map row_shown row.now) }
{
    match row {
        Some(row) => since < row.number,
        None => false,
    }
}

fn number_by(numbering: Numbering, message: &Numbered) -> u32
    ensures { result ≡ number_by numbering message.now }
{
    match numbering {
        Numbering::Sequence => message.number,
        Numbering::Uid => message.uid,
    }
}
