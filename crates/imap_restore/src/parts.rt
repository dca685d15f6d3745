//! What a store keeps of a world, read again from its tables.
//!
//! Users' own changes are read again before the messages. The rows of both are taken from the ends of their tables,
//! and what is read of a row takes its room.

ghost use Rattle.std.specs.Prelude.{◌≡◌, ◌↔◌, ℤ, Contains, List, Err, IfOk, IsTrue, OnOk, map};
ghost use Rattle.std.specs.BTreeSet as sorted;
ghost use Rattle.std.specs.List.{AllByRecursion, AllZip};
ghost use Rattle.std.specs.Ordering.{int_cmp};
ghost use Rattle.imap_restore.specs.Parts.{AreGrouped, AreIdsApart, AreInGroups, AreKnown, AreLeft, AreOf};
ghost use Rattle.imap_restore.specs.Parts.{AreOwnersApart, ArePartsFor, HasRows};
ghost use Rattle.imap_restore.specs.Parts.{HasMailboxOf, HasOwn, HasParts, HaveGroups, HaveMailboxes};
ghost use Rattle.imap_restore.specs.Parts.{HaveMessages, IsMailboxOf, IsWithOwn};

use crate::below::{Restore, read_below};
use crate::grouping::grouped;
use crate::taking::take_below;
use imap_mailbox::{GoneMessage, MailboxParts, Message, PartsError, UserChange};
use imap_rights::Entry;
use imap_stored_values::{read_count, read_epochs, read_key, read_subscriptions};
use imap_tables::{
    StoredEntry, StoredGone, StoredMailbox, StoredMessage, StoredSeenFlag, StoredTables,
};
use imap_world::{MailboxRow, WorldParts};
use std::alloc::{AllocError, Global};
use std::collections::BTreeSet;

/// The ids of mailboxes.
pub(crate) fn ids_of(alloc: Global, mailboxes: &[StoredMailbox]) -> Result<Vec<i64>, AllocError>
    ensures { IfOk result (λ ids. ids.items ≡ map (λ it. it.id) mailboxes.now) }
{
    let mut ids = Vec::with_capacity(alloc, mailboxes.len())?;
    'mailboxes: for mailbox in mailboxes {
        ids.push(mailbox.id)?;
    }
    Ok(ids)
}

pub(crate) fn set_of(alloc: Global, ids: Vec<i64>) -> Result<BTreeSet<i64>, AllocError>
    ensures { IfOk result (λ set. (id : ℤ)
        → IsTrue (sorted.contains int_cmp set id) ↔ Contains ids.items id) }
{
    let set: BTreeSet<i64> = ids.into_iter().collect(alloc)?;
    Ok(set)
}

pub(crate) fn has_id(ids: &BTreeSet<i64>, id: i64) -> bool
    ensures { result ≡ sorted.contains int_cmp ids.now id }
{
    ids.contains(&id)
}

/// Whether each row is below one of the mailboxes with these ids.
fn are_known<R, T: Restore<R>>(rows: &[R], ids: &BTreeSet<i64>) -> bool
    ensures { IsTrue result ↔ AreKnown T.Restore.mailbox (λ id. sorted.contains int_cmp ids.now id) rows.now }
{
    'rows: for row in rows {
        if !has_id(ids, T::mailbox(row)) {
            return false;
        }
    }
    true
}

/// Whether each row below a mailbox is below one that is there.
fn have_mailboxes(alloc: Global, tables: &StoredTables) -> Result<bool, AllocError>
    ensures { IfOk result (λ have. IsTrue have ↔ HaveMailboxes tables.now) }
{
    let ids = ids_of(alloc, &tables.mailboxes)?;
    let ids = set_of(alloc, ids)?;
    if !are_known::<_, Entry>(&tables.entries, &ids) {
        return Ok(false);
    }
    if !are_known::<_, Message>(&tables.messages, &ids) {
        return Ok(false);
    }
    if !are_known::<_, GoneMessage>(&tables.gone, &ids) {
        return Ok(false);
    }
    Ok(are_known::<_, UserChange>(&tables.marks, &ids))
}

/// A mailbox with its users' own changes.
#[derive(Drop)]
struct MailboxWithOwn {
    stored: StoredMailbox,
    own: Vec<UserChange>,
}

/// The rows below mailboxes, except for those of users' own changes.
#[derive(Drop)]
struct RowsBelow {
    entries: Vec<StoredEntry>,
    messages: Vec<StoredMessage>,
    gone: Vec<StoredGone>,
}

/// Reads users' own changes of each mailbox, and lets their rows go. Fails with `Bad` if one of these keeps
/// nothing.
#[tactic(auto, using(crate::proofs::Zipped::read_start, crate::proofs::Taken::still_start))]
fn with_own(
    alloc: Global,
    mut mailboxes: Vec<StoredMailbox>,
    mut marks: Vec<StoredSeenFlag>,
) -> Result<Vec<MailboxWithOwn>, PartsError>
    requires grouped { AreGrouped (λ (mark : StoredSeenFlag). mark.mailbox) marks.items }
    requires apart { AreIdsApart mailboxes.items }
    ensures ok { IfOk result (λ all. AllZip (IsWithOwn marks.items) mailboxes.items all.items) }
    ensures bad { result ≡ Err PartsError.Bad → AllByRecursion (HasOwn marks.items) mailboxes.items → ⊥ }
{
    let mut all = Vec::with_capacity(alloc, mailboxes.len())?;
    'mailboxes: while let Some(mailbox) = mailboxes.pop() {
        let own = match take_below(alloc, &mut marks, mailbox.id) {
            Ok(own) => own,
            Err(error) => return Err(error),
        };
        let Ok(()) = all.push(MailboxWithOwn {
            stored: mailbox,
            own,
        }) else {
            return Err(PartsError::Memory);
        };
    }
    all.reverse();
    Ok(all)
}

/// Reads the messages of a mailbox, and takes the rows of those that are there. Fails with `Bad` if a row below it
/// keeps nothing, or its number of events is none.
fn read_messages(
    alloc: Global,
    rows: &mut RowsBelow,
    mailbox: &StoredMailbox,
    own: Vec<UserChange>,
) -> Result<MailboxParts, PartsError>
    requires { AreInGroups rows.old }
    ensures ok { IfOk result (λ parts. (t : StoredTables)
        → HasRows t mailbox.now rows.old own.items → AreOf t mailbox.now parts) }
    ensures left { OnOk result (AreLeft mailbox.now.id rows.old rows.new) }
    ensures bad { result ≡ Err PartsError.Bad → (t : StoredTables)
        → HasRows t mailbox.now rows.old own.items → HaveMessages t mailbox.now → ⊥ }
{
    let Some(shared) = read_count(mailbox.shared) else {
        return Err(PartsError::Bad);
    };
    let messages = take_below(alloc, &mut rows.messages, mailbox.id)?;
    let gone = read_below(alloc, rows.gone.as_slice(), mailbox.id)?;
    Ok(MailboxParts {
        next: mailbox.uidnext,
        shared,
        messages,
        gone,
        own,
    })
}

/// Reads a mailbox with what is below it, and takes the rows of its messages. Fails with `Bad` if it has no name,
/// or a row of it keeps nothing.
fn read_mailbox(
    alloc: Global,
    rows: &mut RowsBelow,
    mailbox: MailboxWithOwn,
) -> Result<MailboxRow, PartsError>
    requires { AreInGroups rows.old }
    ensures ok { IfOk result (IsMailboxOf rows.old mailbox) }
    ensures left { OnOk result (AreLeft mailbox.stored.id rows.old rows.new) }
    ensures bad { result ≡ Err PartsError.Bad → HasMailboxOf rows.old mailbox → ⊥ }
{
    let MailboxWithOwn { stored, own } = mailbox;
    let name = read_key(alloc, &stored.key)?;
    let acl = read_below(alloc, rows.entries.as_slice(), stored.id)?;
    let messages = read_messages(alloc, rows, &stored, own)?;
    Ok(MailboxRow {
        name,
        validity: stored.validity,
        acl,
        messages,
    })
}

/// Reads mailboxes, the last first, and takes the rows of their messages. Fails with `Bad` if a row is that of no
/// mailbox.
#[tactic(auto, using(crate::proofs::Zipped::read_start, crate::proofs::Taken::still_start))]
fn read_mailboxes(
    alloc: Global,
    rows: &mut RowsBelow,
    mut mailboxes: Vec<MailboxWithOwn>,
) -> Result<Vec<MailboxRow>, PartsError>
    requires groups { AreInGroups rows.old }
    requires apart { AreOwnersApart mailboxes.items }
    ensures ok { IfOk result (λ read. AllZip (IsMailboxOf rows.old) mailboxes.items read.items) }
    ensures bad { result ≡ Err PartsError.Bad
        → AllByRecursion (HasMailboxOf rows.old) mailboxes.items → ⊥ }
{
    let mut read = Vec::with_capacity(alloc, mailboxes.len())?;
    'mailboxes: while let Some(mailbox) = mailboxes.pop() {
        let row = match read_mailbox(alloc, rows, mailbox) {
            Ok(row) => row,
            Err(error) => return Err(error),
        };
        let Ok(()) = read.push(row) else {
            return Err(PartsError::Memory);
        };
    }
    read.reverse();
    Ok(read)
}

/// Reads what a store keeps of a world, with the rows of its tables in the order of mailboxes. Fails with `Bad`
/// if a row keeps nothing, or is below a mailbox that is not there.
///
/// Users' own changes are read first, so that their rows are let go before messages are read.
#[tactic(auto, using(crate::proofs::Own::all_own, crate::proofs::Own::all_of, crate::proofs::Own::all_read, crate::proofs::Own::owners_apart))]
fn read_grouped(alloc: Global, tables: StoredTables) -> Result<WorldParts, PartsError>
    requires groups { HaveGroups tables }
    requires apart { AreIdsApart tables.mailboxes.items }
    ensures ok { IfOk result (ArePartsFor tables) }
    ensures bad { result ≡ Err PartsError.Bad → HasParts tables → ⊥ }
{
    if !have_mailboxes(alloc, &tables)? {
        return Err(PartsError::Bad);
    }
    let StoredTables {
        mailboxes,
        entries,
        messages,
        gone,
        marks,
        epochs,
        subscriptions,
        meta: _,
    } = tables;
    let mailboxes = with_own(alloc, mailboxes, marks)?;
    let mut rows = RowsBelow {
        entries,
        messages,
        gone,
    };
    let mailboxes = read_mailboxes(alloc, &mut rows, mailboxes)?;
    let epochs = read_epochs(alloc, epochs)?;
    let subscriptions = read_subscriptions(alloc, subscriptions)?;
    Ok(WorldParts {
        mailboxes,
        epochs,
        subscriptions,
    })
}

/// Reads what a store keeps of a world. Fails with `Bad` if a row keeps nothing, or is below a mailbox that
/// is not there.
pub(crate) fn read_parts(alloc: Global, tables: StoredTables) -> Result<WorldParts, PartsError>
    requires { AreIdsApart tables.mailboxes.items }
    ensures ok { IfOk result (ArePartsFor tables) }
    ensures bad { result ≡ Err PartsError.Bad → HasParts tables → ⊥ }
{
    match grouped(tables) {
        Ok(tables) => read_grouped(alloc, tables),
        Err(_) => Err(PartsError::Memory),
    }
}
