//! Messages with the flags that STORE gives them.

ghost use Rattle.std.specs.Prelude.{◌≡◌, ◌++◌, ◌∷◌, [], Some, None, IfOk, OnOk, map, option_map};
ghost use Rattle.std.specs.Prelude.{◌≤◌, length, if◌then◌else◌};
ghost use Rattle.imap_changes.specs.Store as specs;
ghost use Rattle.imap_changes.specs.Storing.{AddsStored, Stores, stored_if_there, stored_named};
ghost use Rattle.imap_mailbox.specs.Lent.{row_shown, row_uids};
ghost use Rattle.imap_mailbox.specs.Summary.{AreRising};
ghost use Rattle.imap_rights.specs.Rights.{bits};
ghost use Rattle.imap_targets.specs.State.{selection_of};
ghost use Rattle.imap_targets.specs.MessageNumbers.{uids_of};

use crate::expunge::knows;
use crate::store_flags::{flags_changed, is_seen_after};
use imap_batch::FlagUpdate;
use imap_grammar::StoreSpec;
use imap_mailbox::{Row, Rows, SharedFlags};
use imap_rights::Rights;
use imap_targets::{Numbered, Selected, row_with};
use imap_values::TryCopy;
use std::alloc::{AllocError, Global};

/// A message with the flags that STORE gives it.
#[derive(Drop)]
pub(crate) struct StoreOutcome {
    /// Its message sequence number.
    pub(crate) number: u32,
    pub(crate) uid: u32,
    /// Its mod-sequence before.
    pub(crate) before: u64,
    /// Whether the session knows it, but was not told all of it.
    pub(crate) behind: bool,
    /// The flags that all users share, afterwards.
    pub(crate) flags: SharedFlags,
    /// The user's own `\Seen` afterwards.
    pub(crate) seen: bool,
    /// Whether these are others than before.
    pub(crate) flags_change: bool,
    pub(crate) seen_changes: bool,
}

/// The messages that are there with the flags that STORE gives them, in the order of UIDs. `None` if one would have
/// more keywords than a message may have.
pub(crate) fn stored_all(
    alloc: Global,
    rights: Rights,
    spec: &StoreSpec,
    selected: &Selected,
    rows: &Rows<'_>,
    messages: &[Numbered],
) -> Result<Option<Vec<StoreOutcome>>, AllocError>
    requires named { AreRising (uids_of messages.now) }
    requires rows { AreRising (row_uids rows.now) }
    ensures { let s = selection_of selected.now in
        let meant = specs.stored_all (bits rights) spec.now s messages.now rows.now in
        IfOk result (Stores meant) }
{
    stored_named(alloc, rights, spec, selected, rows, messages)
}

/// The same, in the order in which they are named.
fn stored_named(
    alloc: Global,
    rights: Rights,
    spec: &StoreSpec,
    selected: &Selected,
    rows: &Rows<'_>,
    messages: &[Numbered],
) -> Result<Option<Vec<StoreOutcome>>, AllocError>
    ensures { let s = selection_of selected.now in
        let meant = stored_named (bits rights) spec.now s rows.now messages.now in
        IfOk result (Stores meant) }
{
    let mut stored = Vec::new(alloc);
    for message in messages {
        let row = row_with(rows, message.uid);
        if !add_if_there(
            &mut stored,
            alloc,
            rights,
            spec,
            selected,
            message.number,
            &row,
        )? {
            return Ok(None);
        }
    }
    Ok(Some(stored))
}

/// Adds the message, if it is there. Returns whether it has few enough keywords.
fn add_if_there(
    stored: &mut Vec<StoreOutcome>,
    alloc: Global,
    rights: Rights,
    spec: &StoreSpec,
    selected: &Selected,
    number: u32,
    row: &Option<Row<'_>>,
) -> Result<bool, AllocError>
    ensures { let row = option_map row_shown row.now in
        let meant = stored_if_there (bits rights) spec.now (selection_of selected.now) number row in
        IfOk result (AddsStored meant stored.old.items stored.new.items) }
{
    match row {
        Some(row) => add(stored, alloc, rights, spec, selected, number, row),
        None => Ok(true),
    }
}

fn add(
    stored: &mut Vec<StoreOutcome>,
    alloc: Global,
    rights: Rights,
    spec: &StoreSpec,
    selected: &Selected,
    number: u32,
    row: &Row<'_>,
) -> Result<bool, AllocError>
    ensures { let s = selection_of selected.now in
        let meant = specs.stored_of (bits rights) spec.now s number (row_shown row.now) in
        IfOk result (AddsStored (meant ∷ []) stored.old.items stored.new.items) }
{
    match flags_changed(alloc, rights, spec, row.flags)? {
        Some(flags) => {
            let seen = is_seen_after(rights, spec, row.seen);
            let behind = is_behind(selected, row);
            stored.push(StoreOutcome {
                number,
                uid: row.uid,
                before: row.number,
                behind,
                flags_change: !row.flags.is_equal(&flags),
                seen_changes: row.seen != seen,
                flags,
                seen,
            })?;
            Ok(true)
        }
        None => Ok(false),
    }
}

/// Whether the session knows the message, but was not told all of it.
fn is_behind(selected: &Selected, row: &Row<'_>) -> bool
    ensures { result ≡ specs.is_behind (selection_of selected.now) (row_shown row.now) }
{
    knows(&selected.known, row.uid) && selected.up_to < row.number
}

/// The marks of those that change.
pub(crate) fn marks_of(
    alloc: Global,
    messages: &[StoreOutcome],
) -> Result<Vec<FlagUpdate>, AllocError>
    ensures { IfOk result (λ marks. marks.items ≡ specs.marks_of messages.now) }
{
    let mut marks = Vec::new(alloc);
    for message in messages {
        push_mark(&mut marks, alloc, message)?;
    }
    Ok(marks)
}

fn push_mark(
    marks: &mut Vec<FlagUpdate>,
    alloc: Global,
    message: &StoreOutcome,
) -> Result<(), AllocError>
    ensures { OnOk result (marks.new.items ≡ marks.old.items ++ specs.mark_of message.now) }
{
    if message.flags_change || message.seen_changes {
        marks.push(FlagUpdate {
            uid: message.uid,
            flags: flags_if(message.flags_change, alloc, &message.flags)?,
            seen: if message.seen_changes {
                Some(message.seen)
            } else {
                None
            },
        })?;
    }
    Ok(())
}

fn flags_if(
    change: bool,
    alloc: Global,
    flags: &SharedFlags,
) -> Result<Option<SharedFlags>, AllocError>
    ensures { IfOk result (λ given. given ≡ (if change then Some flags.now else None)) }
{
    if change {
        Ok(Some(flags.try_copy(alloc)?))
    } else {
        Ok(None)
    }
}

/// The UIDs of the messages.
pub(crate) fn uids_of(alloc: Global, messages: &[StoreOutcome]) -> Result<Vec<u32>, AllocError>
    ensures { IfOk result (λ uids. uids.items ≡ map (λ m. m.uid) messages.now) }
{
    let mut uids = Vec::with_capacity(alloc, messages.len())?;
    for message in messages {
        uids.push(message.uid)?;
    }
    Ok(uids)
}

/// How many of the messages get other shared flags.
pub(crate) fn flag_changes(messages: &[StoreOutcome]) -> u64
    ensures { result ≡ specs.flag_changes messages.now }
{
    let mut count = 0;
    for message in messages {
        count += u64::from(message.flags_change);
    }
    count
}

/// Counts the messages whose `\Seen` changes.
pub(crate) fn seen_changes(messages: &[StoreOutcome]) -> u64
    ensures count { result ≡ specs.seen_changes messages.now }
    ensures few { result ≤ length messages.now }
{
    let mut count = 0;
    for message in messages {
        count += u64::from(message.seen_changes);
    }
    count
}
