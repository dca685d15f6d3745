//! What is written for a batch, by the mailbox as it is.

ghost use Rattle.std.specs.Prelude.{◌≡◌, ◌≤◌, ◌-◌, ◌++◌, not, length, take, true, IfOk, None, Ok, OnOk};
ghost use Rattle.std.specs.List.{list_all};
ghost use Rattle.std.specs.Result.{result_err};
ghost use Rattle.imap_mailbox.specs.Flags.{has_too_many};
ghost use Rattle.imap_mailbox.specs.Held.{summary_in};
ghost use Rattle.imap_mailbox.specs.Own.{own_at};
ghost use Rattle.imap_mailbox.specs.Summary.{uids_in};
ghost use Rattle.imap_modseq.specs.Numbers.{max_events};
ghost use Rattle.imap_batch.specs.Batch.{are_few, has_few_keywords, has_numbers, has_uids, has_messages};
ghost use Rattle.imap_batch.specs.Batch.{are_known, before_first, dropped_from, flag_count, mark_uids};
ghost use Rattle.imap_batch.specs.Batch.{place_list, write_for, write_of, Finds};
ghost use Rattle.imap_batch.specs.Written.{MayWrite};

use crate::batch::{Batch, FlagUpdate, NewMessage};
use crate::error::BatchError;
use crate::own::own_changes;
use crate::write::BatchWrite;
use imap_mailbox::{Items, MAX_KEYWORDS, Mailbox, SeenChange, SharedFlags};
use imap_modseq::MAX_EVENTS;
use imap_values::beside;
use std::alloc::{AllocError, Global};

/// Returns why [`resolve`] refuses a batch, or `None` if only memory can run out: `Limit` if a message would
/// have over [`MAX_KEYWORDS`] keywords, or too few UIDs or shared events are left, and else `NoSuchUid` if
/// the UIDs of marks or those that are expunged don't rise, or one of them is of no message. Takes no memory.
pub fn refusal(mailbox: &Mailbox, batch: &Batch) -> Option<BatchError>
    ensures { result ≡ result_err (write_for batch.now (summary_in mailbox.now)) }
{
    if !has_few_keywords(batch) || !has_numbers(mailbox, batch) {
        return Some(BatchError::Limit);
    }
    if !has_messages(mailbox, batch) {
        return Some(BatchError::NoSuchUid);
    }
    None
}

/// Finds the numbers by which a batch is written, and the own changes that go. Fails with what [`refusal`] returns, and else only for
/// want of memory.
pub fn resolve(alloc: Global, mailbox: &Mailbox, batch: &Batch) -> Result<BatchWrite, BatchError>
    ensures result { Finds result (write_for batch.now (summary_in mailbox.now)) }
    ensures may { IfOk result (λ write. MayWrite write (summary_in mailbox.now)) }
{
    match refusal(mailbox, batch) {
        Some(error) => Err(error),
        None => Ok(write_of(alloc, mailbox, batch)?),
    }
}

/// Copies a batch that is not refused, with the numbers by which it is written.
fn write_of(alloc: Global, mailbox: &Mailbox, batch: &Batch) -> Result<BatchWrite, AllocError>
    requires { result_err (write_for batch.now (summary_in mailbox.now)) ≡ None }
    ensures write { IfOk result (λ write. write_for batch.now (summary_in mailbox.now) ≡ Ok write) }
    ensures may { IfOk result (λ write. MayWrite write (summary_in mailbox.now)) }
{
    let dropped = dropped_by(alloc, mailbox, batch)?;
    let (copy, dropped) = beside(batch.try_copy(alloc), dropped)?;
    let own_before = mailbox.own_len(copy.user.as_str());
    Ok(BatchWrite {
        batch: copy,
        first_uid: mailbox.next_uid(),
        first_place: mailbox.shared_len(),
        own_before,
        dropped: Items::from_vec(dropped),
    })
}

/// Finds the places of the user's own changes that go with those of a batch.
fn dropped_by(alloc: Global, mailbox: &Mailbox, batch: &Batch) -> Result<Vec<u64>, AllocError>
    requires { has_numbers batch.now (summary_in mailbox.now) ≡ true }
    ensures { IfOk result (λ dropped.
        dropped.items ≡ (write_of batch.now (summary_in mailbox.now)).dropped) }
{
    let changes = own_changes(alloc, batch, mailbox.next_uid(), mailbox.shared_len())?;
    let changes = changes.as_slice();
    let mut dropped = Vec::new(alloc);
    let before = before_first(changes);
    push_dropped(&mut dropped, mailbox, batch.user.as_str(), before, changes)?;
    Ok(dropped)
}

/// Returns the number of shared events before the first of the changes, or 0 if there is none.
fn before_first(changes: &[SeenChange]) -> u64
    ensures { result ≡ before_first changes.now }
{
    match changes.first() {
        Some(first) => first.before,
        None => 0,
    }
}

/// Appends the places of the user's own changes that go with these, before the first of which there are
/// `before` shared events. Those past the user's events are left away.
fn push_dropped(
    dropped: &mut Vec<u64>,
    mailbox: &Mailbox,
    user: &str,
    before: u64,
    changes: &[SeenChange],
) -> Result<(), AllocError>
    ensures { let own = own_at (summary_in mailbox.now).own user.now in
        OnOk result (dropped.new.items ≡ dropped.old.items
        ++ dropped_from before own (take (max_events - length own.befores) changes.now)) }
{
    let mut at = mailbox.own_len(user);
    for change in changes {
        if at >= MAX_EVENTS {
            return Ok(());
        }
        push_place(dropped, mailbox.dropped_by(user, change.uid, before))?;
        at += 1;
    }
    Ok(())
}

fn push_place(places: &mut Vec<u64>, place: Option<u64>) -> Result<(), AllocError>
    ensures { OnOk result (places.new.items ≡ places.old.items ++ place_list place) }
{
    match place {
        Some(place) => {
            if place < MAX_EVENTS {
                places.push(place)?;
            }
            Ok(())
        }
        None => Ok(()),
    }
}

fn is_few(flags: &SharedFlags) -> bool
    ensures { result ≡ not (has_too_many flags.now) }
{
    flags.keywords.len() <= MAX_KEYWORDS
}

fn are_few(flags: &Option<SharedFlags>) -> bool
    ensures { result ≡ are_few flags.now }
{
    match flags {
        Some(flags) => is_few(flags),
        None => true,
    }
}

fn are_new_few(added: &[NewMessage]) -> bool
    ensures { result ≡ list_all (λ m. not (has_too_many m.flags)) added.now }
{
    added.iter().all(|message| is_few(&message.flags))
}

fn are_marks_few(marks: &[FlagUpdate]) -> bool
    ensures { result ≡ list_all (λ k. are_few k.flags) marks.now }
{
    marks.iter().all(|mark| are_few(&mark.flags))
}

/// Whether no message gets over [`MAX_KEYWORDS`] keywords.
fn has_few_keywords(batch: &Batch) -> bool
    ensures { result ≡ has_few_keywords batch.now }
{
    are_new_few(batch.added.as_slice()) && are_marks_few(batch.marks.as_slice())
}

/// Returns the number of shared events of marks.
pub fn flag_count(marks: &[FlagUpdate]) -> usize
    ensures count { result ≡ flag_count marks.now }
    ensures most { result ≤ length marks.now }
{
    let mut count = 0;
    for mark in marks {
        let sets = mark.flags.is_some();
        count += sets as usize;
    }
    count
}

/// Whether UIDs and shared events are left for all that is asked.
fn has_numbers(mailbox: &Mailbox, batch: &Batch) -> bool
    ensures { result ≡ has_numbers batch.now (summary_in mailbox.now) }
{
    let added = batch.added.as_slice().len() as u64;
    let flags = flag_count(batch.marks.as_slice()) as u64;
    let expunged = batch.expunged.as_slice().len() as u64;
    let events = added.saturating_add(flags.saturating_add(expunged));
    has_uids(mailbox, added) && mailbox.shared_len().saturating_add(events) <= MAX_EVENTS
}

/// Whether UIDs are left for `added` messages.
fn has_uids(mailbox: &Mailbox, added: u64) -> bool
    ensures { result ≡ has_uids added mailbox.now.next }
{
    added == 0 || (mailbox.next_uid() as u64).saturating_add(added) <= u32::MAX as u64
}

/// Whether messages have the UIDs of marks, and those that are expunged, which rise.
fn has_messages(mailbox: &Mailbox, batch: &Batch) -> bool
    ensures { result ≡ has_messages batch.now (summary_in mailbox.now) }
{
    are_marks_known(mailbox, batch.marks.as_slice())
        && are_known(mailbox, batch.expunged.as_slice())
}

fn are_known(mailbox: &Mailbox, uids: &[u32]) -> bool
    ensures { result ≡ are_known 0 uids.now (uids_in mailbox.now.messages) }
{
    let end = mailbox.next_uid();
    let mut low: u32 = 0;
    for uid in uids {
        if *uid < low {
            return false;
        }
        if !mailbox.contains(*uid) {
            return false;
        }
        prove!(*uid < end);
        low = *uid + 1;
    }
    true
}

fn are_marks_known(mailbox: &Mailbox, marks: &[FlagUpdate]) -> bool
    ensures { result ≡ are_known 0 (mark_uids marks.now) (uids_in mailbox.now.messages) }
{
    let end = mailbox.next_uid();
    let mut low: u32 = 0;
    for mark in marks {
        if mark.uid < low {
            return false;
        }
        if !mailbox.contains(mark.uid) {
            return false;
        }
        prove!(mark.uid < end);
        low = mark.uid + 1;
    }
    true
}
