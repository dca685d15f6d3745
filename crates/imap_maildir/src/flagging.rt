//! Flags of messages that are there.

use crate::kept_mailboxes::KeptMailboxes;
use crate::maildir_error::MaildirError;
use imap_batch::{Batch, FlagUpdate};
use imap_keeper::Keeper;
use imap_mailbox::{Mailbox, Row, Rows, SharedFlags};
use imap_names::{Name, UserName};
use imap_syntax::{Atom, Flag};
use imap_values::{TryCopy, beside};
use imap_world::{Effect, NamedBatch};
use std::alloc::{AllocError, Global};

/// How many messages are changed in one transaction, at most.
pub(crate) const MAX_CHANGES: usize = 1_000;

/// Makes a change of the messages of a mailbox. The error has the path of a file or folder.
pub(crate) fn change_messages<K: Keeper>(
    alloc: Global,
    kept: &mut KeptMailboxes<K>,
    path: &str,
    name: &Name,
    batch: Batch,
) -> Result<(), MaildirError> {
    let (name, batch) = beside(name.try_copy(), batch)?;
    match kept.make(alloc, Effect::Messages(NamedBatch { name, batch }, None)) {
        Ok(()) => Ok(()),
        Err(fault) => Err(fault.of_folder(alloc, path)),
    }
}

/// Makes changes of flags, if there are some. They are in the order of UIDs.
pub(crate) fn mark<K: Keeper>(
    alloc: Global,
    kept: &mut KeptMailboxes<K>,
    path: &str,
    user: &UserName,
    name: &Name,
    marks: Vec<FlagUpdate>,
) -> Result<(), MaildirError> {
    if marks.is_empty() {
        return Ok(());
    }
    let batch = Batch::marking(alloc, user, marks)?;
    change_messages(alloc, kept, path, name, batch)
}

/// The user has seen these messages afterwards. The UIDs are in their order.
pub(crate) fn mark_seen<K: Keeper>(
    alloc: Global,
    kept: &mut KeptMailboxes<K>,
    path: &str,
    user: &UserName,
    name: &Name,
    uids: &[u32],
) -> Result<(), MaildirError> {
    for some in uids.chunks(MAX_CHANGES) {
        let marks = match kept.world().mailbox(&name.as_ref()) {
            Some(entry) => unseen_marks(alloc, entry.messages.as_ref(), user, some)?,
            None => Vec::new(alloc),
        };
        mark(alloc, kept, path, user, name, marks)?;
    }
    Ok(())
}

/// The row of a message, if it is there.
pub(crate) fn row_of<'a>(rows: &Rows<'a>, uid: u32) -> Option<Row<'a>> {
    let place = rows.place_of(uid)?;
    if place < rows.len() {
        Some(rows.get(place))
    } else {
        None
    }
}

/// The changes by which the user has seen those of the messages that the user hasn't.
fn unseen_marks(
    alloc: Global,
    mailbox: &Mailbox,
    user: &UserName,
    uids: &[u32],
) -> Result<Vec<FlagUpdate>, AllocError> {
    let rows = mailbox.rows(user.as_str());
    let mut marks = Vec::new(alloc);
    for &uid in uids {
        if let Some(row) = row_of(&rows, uid) {
            if !row.seen {
                marks.push(FlagUpdate {
                    uid,
                    flags: None,
                    seen: Some(true),
                })?;
            }
        }
    }
    Ok(marks)
}

/// The messages have the keyword afterwards. The UIDs are in their order.
pub(crate) fn mark_keyword<K: Keeper>(
    alloc: Global,
    kept: &mut KeptMailboxes<K>,
    path: &str,
    user: &UserName,
    name: &Name,
    word: &Atom,
    uids: &[u32],
) -> Result<(), MaildirError> {
    for some in uids.chunks(MAX_CHANGES) {
        let marks = match kept.world().mailbox(&name.as_ref()) {
            Some(entry) => keyword_marks(alloc, entry.messages.as_ref(), word, some)?,
            None => Vec::new(alloc),
        };
        mark(alloc, kept, path, user, name, marks)?;
    }
    Ok(())
}

/// The changes by which those of the messages have the keyword that haven't.
fn keyword_marks(
    alloc: Global,
    mailbox: &Mailbox,
    word: &Atom,
    uids: &[u32],
) -> Result<Vec<FlagUpdate>, AllocError> {
    let mut marks = Vec::new(alloc);
    for &uid in uids {
        if let Some(message) = mailbox.find(uid) {
            if let Some(flags) = with_keyword(alloc, &message.flags, word)? {
                marks.push(FlagUpdate {
                    uid,
                    flags: Some(flags),
                    seen: None,
                })?;
            }
        }
    }
    Ok(marks)
}

/// The flags with the keyword, or `None` if it's one of them.
fn with_keyword(
    alloc: Global,
    flags: &SharedFlags,
    word: &Atom,
) -> Result<Option<SharedFlags>, AllocError> {
    let (flag, mut more) = beside(keyword(alloc, word), flags.try_copy(alloc)?)?;
    more.insert(alloc, &flag)?;
    drop(flag);
    if more.is_equal(flags) {
        Ok(None)
    } else {
        Ok(Some(more))
    }
}

fn keyword(alloc: Global, word: &Atom) -> Result<Flag, AllocError> {
    Ok(Flag::Keyword(word.try_copy(alloc)?))
}
