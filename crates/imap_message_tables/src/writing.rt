//! A message is added, gets flags and goes, in the three tables.

ghost use Rattle.std.specs.Prelude.{◌≡◌, Err, IfOk, IsOk, MatchResult, OnOk, map, string_bytes};
ghost use Rattle.imap_message_tables.specs.Going.{Goes};
ghost use Rattle.imap_message_tables.specs.Joining.{AreWordsOf};
ghost use Rattle.imap_message_tables.specs.Parts.{MakesParts, parts_removed};
ghost use Rattle.imap_message_tables.specs.Writing.{AddsBody, AddsHead, AddsMessage, AddsWords};
ghost use Rattle.imap_message_tables.specs.Writing.{ChangesWords, CutsWords, FlagsHead, FlagsMessage, IsThere};
ghost use Rattle.imap_message_tables.specs.Writing.{WritesBelow};
ghost use Rattle.imap_tables.specs.Changes.{Then};
ghost use Rattle.imap_tables.specs.Edits.{IsMessageOf, Removes};
ghost use Rattle.imap_tables.specs.Steps.{Calls, HasOrder, HasSchema, IsBegun, Turns};
ghost use Rattle.imap_tables.specs.Tables.{store_schema};
ghost use Rattle.imap_tables.specs.declared.changes.ChangeBelow.TheVariants as below;
ghost use Rattle.sqlite.specs.Held.{state};
ghost use Rattle.sqlite.specs.State.{IsUnchanged};

use crate::keywords::{without, words_of};
use crate::plain::in_order;
use imap_tables::{
    FlagsRow, MessageRow, check_head, delete_body, delete_head, delete_keyword, delete_keywords,
    find_keywords, flag_head, insert_body, insert_head, insert_keyword,
};
use sqlite::{Alter, Error, Transaction};
use std::alloc::Global;

/// Drops the count of rows that were written.
pub(crate) fn made(count: Result<usize, Error>) -> Result<(), Error>
    ensures { MatchResult result (λ _. IsOk count) (λ error. count ≡ Err error) }
{
    match count {
        Ok(_) => Ok(()),
        Err(error) => Err(error),
    }
}

// ---- keywords

/// Adds keywords of a message, in turn.
fn put_words<S: Alter>(
    tx: &mut Transaction<'_, S>,
    mailbox: &i64,
    uid: u32,
    words: &[String],
) -> Result<(), Error>
    requires schema { HasSchema store_schema (state S.Store tx.old.conn.now) }
    requires begun { IsBegun (state S.Store tx.old.conn.now) }
    ensures same_reference { tx.new.conn.ghost_name ≡ tx.old.conn.ghost_name }
    ensures call { Calls S.Store tx.old.conn.now tx.new.conn.now (λ old new.
        OnOk result (Goes (AddsWords mailbox.now uid (map string_bytes words.now)) old new)) }
{
    'words: for word in words {
        insert_keyword(tx, mailbox, uid, word)?;
    }
    Ok(())
}

/// Deletes keywords of a message, in turn.
fn cut_words<S: Alter>(
    tx: &mut Transaction<'_, S>,
    mailbox: &i64,
    uid: u32,
    words: &[String],
) -> Result<(), Error>
    requires schema { HasSchema store_schema (state S.Store tx.old.conn.now) }
    requires begun { IsBegun (state S.Store tx.old.conn.now) }
    ensures same_reference { tx.new.conn.ghost_name ≡ tx.old.conn.ghost_name }
    ensures call { Calls S.Store tx.old.conn.now tx.new.conn.now (λ old new.
        OnOk result (Goes (CutsWords mailbox.now uid (map string_bytes words.now)) old new)) }
{
    'words: for word in words {
        delete_keyword(tx, mailbox, uid, word)?;
    }
    Ok(())
}

/// Deletes some keywords of a message, and adds others.
fn change_words<S: Alter>(
    tx: &mut Transaction<'_, S>,
    mailbox: &i64,
    uid: u32,
    gone: &[String],
    added: &[String],
) -> Result<(), Error>
    requires schema { HasSchema store_schema (state S.Store tx.old.conn.now) }
    requires begun { IsBegun (state S.Store tx.old.conn.now) }
    ensures same_reference { tx.new.conn.ghost_name ≡ tx.old.conn.ghost_name }
    ensures call { Calls S.Store tx.old.conn.now tx.new.conn.now (λ old new.
        OnOk result (Goes (Then (CutsWords mailbox.now uid (map string_bytes gone.now))
        (AddsWords mailbox.now uid (map string_bytes added.now))) old new)) }
{
    cut_words(tx, mailbox, uid, gone)?;
    put_words(tx, mailbox, uid, added)
}

// ---- a message is added

fn put_head<S: Alter>(
    tx: &mut Transaction<'_, S>,
    mailbox: &i64,
    row: &MessageRow,
) -> Result<usize, Error>
    requires { HasSchema store_schema (state S.Store tx.old.conn.now) }
    ensures same_reference { tx.new.conn.ghost_name ≡ tx.old.conn.ghost_name }
    ensures call { Calls S.Store tx.old.conn.now tx.new.conn.now (λ old new.
        OnOk result (Turns (AddsHead mailbox.now row.now) old new)) }
{
    insert_head(tx, mailbox, row.uid, &row.date, row.flags, &row.place)
}

/// Adds the octets and the keywords of a message.
fn put_rest<S: Alter>(
    tx: &mut Transaction<'_, S>,
    mailbox: &i64,
    row: &MessageRow,
    words: &[String],
) -> Result<(), Error>
    requires schema { HasSchema store_schema (state S.Store tx.old.conn.now) }
    requires begun { IsBegun (state S.Store tx.old.conn.now) }
    ensures same_reference { tx.new.conn.ghost_name ≡ tx.old.conn.ghost_name }
    ensures call { Calls S.Store tx.old.conn.now tx.new.conn.now (λ old new.
        OnOk result (Goes (Then (AddsBody mailbox.now row.now)
        (AddsWords mailbox.now row.now.uid (map string_bytes words.now))) old new)) }
{
    insert_body(tx, mailbox, row.uid, row.octets.as_slice())?;
    put_words(tx, mailbox, row.uid, words)
}

fn put_message<S: Alter>(
    tx: &mut Transaction<'_, S>,
    mailbox: &i64,
    row: &MessageRow,
    words: &[String],
) -> Result<(), Error>
    requires schema { HasSchema store_schema (state S.Store tx.old.conn.now) }
    requires begun { IsBegun (state S.Store tx.old.conn.now) }
    ensures same_reference { tx.new.conn.ghost_name ≡ tx.old.conn.ghost_name }
    ensures call { Calls S.Store tx.old.conn.now tx.new.conn.now (λ old new.
        OnOk result (Turns (AddsMessage mailbox.now row.now (map string_bytes words.now)) old new)) }
{
    put_head(tx, mailbox, row)?;
    put_rest(tx, mailbox, row, words)
}

/// Adds a message. Fails if the text of its keywords is that of none.
pub(crate) fn add_message<S: Alter>(
    tx: &mut Transaction<'_, S>,
    alloc: Global,
    mailbox: &i64,
    row: &MessageRow,
) -> Result<(), Error>
    requires schema { HasSchema store_schema (state S.Store tx.old.conn.now) }
    requires begun { IsBegun (state S.Store tx.old.conn.now) }
    ensures same_reference { tx.new.conn.ghost_name ≡ tx.old.conn.ghost_name }
    ensures call { Calls S.Store tx.old.conn.now tx.new.conn.now (λ old new.
        OnOk result (Turns (WritesBelow mailbox.now (below.AddMessage row.now)) old new)) }
{
    let Some(words) = words_of(alloc, &row.keywords)? else {
        return Err(Error::InvalidQuery);
    };
    put_message(tx, mailbox, row, words.as_slice())
}

// ---- a message gets flags

/// The keywords of a message, in the order of their octets. Fails if they are those of none.
fn ordered(found: Vec<String>) -> Result<Vec<String>, Error>
    ensures { IfOk result (λ words.
        AreWordsOf (map string_bytes found.items) (map string_bytes words.items)) }
{
    match in_order(found) {
        Some(words) => Ok(words),
        None => Err(Error::InvalidQuery),
    }
}

/// Finds the keywords of a message that is there, in the order of their octets. Fails if there is no such
/// message.
fn find_words<S: Alter>(
    tx: &mut Transaction<'_, S>,
    alloc: Global,
    mailbox: &i64,
    uid: u32,
) -> Result<Vec<String>, Error>
    requires schema { HasSchema store_schema (state S.Store tx.old.conn.now) }
    requires begun { IsBegun (state S.Store tx.old.conn.now) }
    ensures same_reference { tx.new.conn.ghost_name ≡ tx.old.conn.ghost_name }
    ensures call { Calls S.Store tx.old.conn.now tx.new.conn.now (λ old new.
        IfOk result (λ words. (HasOrder old
        → IsThere old.now.trees mailbox.now uid (map string_bytes words.items)) × IsUnchanged old new)) }
{
    check_head(tx, mailbox, uid)?;
    let found = find_keywords(tx, alloc, mailbox, uid)?;
    ordered(found)
}

fn put_flags<S: Alter>(
    tx: &mut Transaction<'_, S>,
    mailbox: &i64,
    row: &FlagsRow,
    gone: &[String],
    added: &[String],
) -> Result<(), Error>
    requires schema { HasSchema store_schema (state S.Store tx.old.conn.now) }
    requires begun { IsBegun (state S.Store tx.old.conn.now) }
    ensures same_reference { tx.new.conn.ghost_name ≡ tx.old.conn.ghost_name }
    ensures call { Calls S.Store tx.old.conn.now tx.new.conn.now (λ old new.
        OnOk result (Turns (Then (FlagsHead mailbox.now row.now)
        (Then (CutsWords mailbox.now row.now.uid (map string_bytes gone.now))
        (AddsWords mailbox.now row.now.uid (map string_bytes added.now)))) old new)) }
{
    flag_head(tx, mailbox, row.uid, row.flags, &row.place)?;
    change_words(tx, mailbox, row.uid, gone, added)
}

/// Writes the flags of a message, and the keywords that differ from those before.
fn change_flags<S: Alter>(
    tx: &mut Transaction<'_, S>,
    alloc: Global,
    mailbox: &i64,
    row: &FlagsRow,
    before: &[String],
    words: &[String],
) -> Result<(), Error>
    requires schema { HasSchema store_schema (state S.Store tx.old.conn.now) }
    requires begun { IsBegun (state S.Store tx.old.conn.now) }
    ensures same_reference { tx.new.conn.ghost_name ≡ tx.old.conn.ghost_name }
    ensures call { Calls S.Store tx.old.conn.now tx.new.conn.now (λ old new.
        OnOk result (Turns (FlagsMessage mailbox.now row.now
        (map string_bytes before.now) (map string_bytes words.now)) old new)) }
{
    let gone = without(alloc, before, words)?;
    let added = without(alloc, words, before)?;
    put_flags(tx, mailbox, row, gone.as_slice(), added.as_slice())
}

/// Sets the flags of a message. Fails if there is no such message, or the text of its keywords is
/// that of none.
pub(crate) fn flag_message<S: Alter>(
    tx: &mut Transaction<'_, S>,
    alloc: Global,
    mailbox: &i64,
    row: &FlagsRow,
) -> Result<(), Error>
    requires schema { HasSchema store_schema (state S.Store tx.old.conn.now) }
    requires begun { IsBegun (state S.Store tx.old.conn.now) }
    ensures same_reference { tx.new.conn.ghost_name ≡ tx.old.conn.ghost_name }
    ensures call { Calls S.Store tx.old.conn.now tx.new.conn.now (λ old new.
        OnOk result (Turns (WritesBelow mailbox.now (below.FlagMessage row.now)) old new)) }
{
    let Some(words) = words_of(alloc, &row.keywords)? else {
        return Err(Error::InvalidQuery);
    };
    let before = find_words(tx, alloc, mailbox, row.uid)?;
    change_flags(tx, alloc, mailbox, row, before.as_slice(), words.as_slice())
}

// ---- a message goes

/// Deletes the octets and the keywords of a message.
fn remove_rest<S: Alter>(tx: &mut Transaction<'_, S>, mailbox: &i64, uid: u32) -> Result<(), Error>
    requires schema { HasSchema store_schema (state S.Store tx.old.conn.now) }
    requires begun { IsBegun (state S.Store tx.old.conn.now) }
    ensures same_reference { tx.new.conn.ghost_name ≡ tx.old.conn.ghost_name }
    ensures call { Calls S.Store tx.old.conn.now tx.new.conn.now (λ old new.
        OnOk result (Turns (Then (λ db after. Removes db after 18 (IsMessageOf mailbox.now uid))
        (λ db after. Removes db after 20 (IsMessageOf mailbox.now uid))) old new)) }
{
    delete_body(tx, mailbox, uid)?;
    made(delete_keywords(tx, mailbox, uid))
}

/// Removes a message.
pub(crate) fn remove_message<S: Alter>(
    tx: &mut Transaction<'_, S>,
    mailbox: &i64,
    uid: u32,
) -> Result<(), Error>
    requires schema { HasSchema store_schema (state S.Store tx.old.conn.now) }
    requires begun { IsBegun (state S.Store tx.old.conn.now) }
    ensures same_reference { tx.new.conn.ghost_name ≡ tx.old.conn.ghost_name }
    ensures call { Calls S.Store tx.old.conn.now tx.new.conn.now (λ old new.
        OnOk result (Turns (MakesParts mailbox.now uid parts_removed) old new)) }
{
    delete_head(tx, mailbox, uid)?;
    remove_rest(tx, mailbox, uid)
}
