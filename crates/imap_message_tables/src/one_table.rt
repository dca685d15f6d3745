//! The tables of a store as they are read, with each message in one row.

ghost use Rattle.std.specs.Prelude.{◌≡◌, ◌∷◌, ◌++◌, [], IfNone, IfOk, IfSome, None, Some, OnOk, map, string_bytes, MatchOption};
ghost use Rattle.std.specs.List.{AllZip};
ghost use Rattle.imap_message_tables.specs.Joining.{Fit};
ghost use Rattle.imap_message_tables.specs.OneTable.{AreInOneRow, FitNone, IsInOneRow, IsJoinOf};
ghost use Rattle.imap_message_tables.specs.Split.{words_text};
ghost use Rattle.imap_tables.specs.declared.stored.StoredMessage.{StoredMessage as Stored};

use crate::join::join_rows;
use crate::joined::JoinedMessage;
use crate::taking::take_last;
use imap_tables::{AddedTables, MessageRow, StoredMessage, StoredTables};
use std::alloc::{AllocError, Global};

/// The text of keywords, with a space between them.
fn text_of(alloc: Global, words: &[String]) -> Result<String, AllocError>
    ensures { IfOk result (λ text. string_bytes text ≡ words_text (map string_bytes words.now)) }
{
    words.join(alloc, " ")
}

/// The message in one row, with the text of its keywords.
fn with_text(message: JoinedMessage, keywords: String) -> StoredMessage
    requires { string_bytes keywords ≡ words_text (map string_bytes message.words.items) }
    ensures { IsInOneRow message result }
{
    let head = message.head;
    StoredMessage {
        rowid: head.rowid,
        mailbox: head.mailbox,
        row: MessageRow {
            uid: head.uid,
            date: head.date,
            octets: message.octets,
            flags: head.flags,
            keywords,
            place: head.place,
        },
    }
}

/// Appends the message in one row.
fn push_message(
    messages: &mut Vec<StoredMessage>,
    alloc: Global,
    message: JoinedMessage,
) -> Result<(), AllocError>
    ensures { OnOk result ((stored : Stored) × IsInOneRow message stored
        × (messages.new.items ≡ messages.old.items ++ stored ∷ [])) }
{
    let keywords = text_of(alloc, message.words.as_slice())?;
    messages.push(with_text(message, keywords))?;
    Ok(())
}

/// The messages, each in one row.
fn in_one_row(
    alloc: Global,
    mut joined: Vec<JoinedMessage>,
) -> Result<Vec<StoredMessage>, AllocError>
    ensures { IfOk result (λ messages. AllZip IsInOneRow joined.items messages.items) }
{
    let mut messages = Vec::with_capacity(alloc, joined.len())?;
    joined.reverse();
    'joined: while let Some(message) = take_last(&mut joined) {
        push_message(&mut messages, alloc, message)?;
    }
    Ok(messages)
}

/// The messages that the rows of the three tables are. `None` if the rows don't fit.
fn joined_messages(
    alloc: Global,
    added: AddedTables,
) -> Result<Option<Vec<StoredMessage>>, AllocError>
    ensures fit { IfOk result (λ found. IfSome found (λ messages. AreInOneRow added messages.items)) }
    ensures unfit { IfOk result (λ found. IfNone found
        (Fit added.heads.items added.bodies.items added.keywords.items → ⊥)) }
{
    let Some(joined) = join_rows(alloc, added.heads, added.bodies, added.keywords)? else {
        return Ok(None);
    };
    let messages = in_one_row(alloc, joined)?;
    Ok(Some(messages))
}

/// The tables with these messages, if there are such.
fn with_messages(
    mut stored: StoredTables,
    found: Option<Vec<StoredMessage>>,
) -> Option<StoredTables>
    ensures { MatchOption found (result ≡ None) (λ messages.
        result ≡ Some (record stored { messages = messages })) }
{
    match found {
        Some(messages) => {
            stored.messages = messages;
            Some(stored)
        }
        None => None,
    }
}

/// Joins what is read of the three tables of messages to that of the others, with each message in
/// one row. `None` if a message stands in one row already, or the rows of the three tables don't
/// fit.
pub fn join_tables(
    alloc: Global,
    stored: StoredTables,
    added: AddedTables,
) -> Result<Option<StoredTables>, AllocError>
    ensures some { IfOk result (λ joined. IfSome joined (IsJoinOf stored added)) }
    ensures none { IfOk result (λ joined. IfNone joined (FitNone stored added)) }
{
    if !stored.messages.is_empty() {
        return Ok(None);
    }
    match joined_messages(alloc, added) {
        Ok(found) => Ok(with_messages(stored, found)),
        Err(error) => Err(error),
    }
}
