//! Messages that are copied.

ghost use Rattle.std.specs.Prelude.{◌≡◌, [], ◌∷◌, IfOk, OnOk, option_map};
ghost use Rattle.imap_changes.specs.Copies as specs;
ghost use Rattle.imap_changes.specs.Finding.{AddsCopies, AreCopies, row_if_there, rows_found};
ghost use Rattle.imap_mailbox.specs.Lent.{row_shown, row_uids};
ghost use Rattle.imap_mailbox.specs.Summary.{AreRising};
ghost use Rattle.imap_rights.specs.Rights.{bits};
ghost use Rattle.imap_targets.specs.MessageNumbers.{uids_of};

use imap_batch::NewMessage;
use imap_mailbox::{Row, Rows, SharedFlags};
use imap_rights::Rights;
use imap_syntax::Keywords;
use imap_targets::{Numbered, row_with};
use imap_values::TryCopy;
use std::alloc::{AllocError, Global};

/// Messages of the source, and their copies.
#[derive(Drop)]
pub(crate) struct Copies {
    /// The UIDs of the messages in the source.
    pub(crate) uids: Vec<u32>,
    pub(crate) messages: Vec<NewMessage>,
}

/// Copies the messages that are there, in the order of UIDs. A copy shares octets and keywords. `rights` are those
/// on the target.
pub(crate) fn copies_of_named(
    alloc: Global,
    rights: Rights,
    messages: &[Numbered],
    rows: &Rows<'_>,
) -> Result<Copies, AllocError>
    requires named { AreRising (uids_of messages.now) }
    requires rows { AreRising (row_uids rows.now) }
    ensures { let named = specs.rows_named messages.now rows.now in
        IfOk result (AreCopies (bits rights) named) }
{
    copies_of_found(alloc, rights, messages, rows)
}

/// The same, in the order in which they are named.
fn copies_of_found(
    alloc: Global,
    rights: Rights,
    messages: &[Numbered],
    rows: &Rows<'_>,
) -> Result<Copies, AllocError>
    ensures { let found = rows_found rows.now messages.now in
        IfOk result (AreCopies (bits rights) found) }
{
    let mut copies = Copies {
        uids: Vec::new(alloc),
        messages: Vec::new(alloc),
    };
    for message in messages {
        let row = row_with(rows, message.uid);
        add_if_there(&mut copies, alloc, rights, &row)?;
    }
    Ok(copies)
}

/// Copies the message, if it is there.
fn add_if_there(
    copies: &mut Copies,
    alloc: Global,
    rights: Rights,
    row: &Option<Row<'_>>,
) -> Result<(), AllocError>
    ensures { let found = row_if_there (option_map row_shown row.now) in
        OnOk result (AddsCopies (bits rights) found copies.old copies.new) }
{
    match row {
        Some(row) => add(copies, alloc, rights, row),
        None => Ok(()),
    }
}

fn add(copies: &mut Copies, alloc: Global, rights: Rights, row: &Row<'_>) -> Result<(), AllocError>
    ensures { let found = row_shown row.now ∷ [] in
        OnOk result (AddsCopies (bits rights) found copies.old copies.new) }
{
    let message = copy_of(alloc, rights, row)?;
    copies.messages.push(message)?;
    copies.uids.push(row.uid)?;
    Ok(())
}

fn copy_of(alloc: Global, rights: Rights, row: &Row<'_>) -> Result<NewMessage, AllocError>
    ensures { IfOk result (λ copy. copy ≡ specs.copy_of (bits rights) (row_shown row.now)) }
{
    let octets = row.octets.try_copy()?;
    let flags = flags_kept(alloc, rights, row.flags)?;
    Ok(NewMessage {
        date: row.date,
        octets,
        flags,
        seen: row.seen && rights.has_any(Rights::SEEN),
    })
}

/// The flags for which the user holds the right on the target.
fn flags_kept(alloc: Global, rights: Rights, flags: &SharedFlags) -> Result<SharedFlags, AllocError>
    ensures { IfOk result (λ kept. kept ≡ specs.flags_kept (bits rights) flags.now) }
{
    let writes = rights.has_any(Rights::WRITE);
    let deletes = rights.has_any(Rights::DELETE_MESSAGES);
    let keywords = if writes {
        flags.keywords.try_copy(alloc)?
    } else {
        Keywords::new(alloc)
    };
    Ok(SharedFlags {
        answered: flags.answered && writes,
        deleted: flags.deleted && deletes,
        draft: flags.draft && writes,
        flagged: flags.flagged && writes,
        keywords,
    })
}
