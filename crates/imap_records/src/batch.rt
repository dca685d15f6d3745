//! Rows of the messages of a mailbox.

ghost use Rattle.std.specs.Prelude.{◌≡◌, ◌<◌, ◌≤◌, ◌+◌, ◌-◌, ◌++◌, ◌∷◌, [], is_some, length, map, take, IfOk};
ghost use Rattle.std.specs.Prelude.{OnOk, true};
ghost use Rattle.std.specs.List.{All, AllByRecursion};
ghost use Rattle.std.specs.Str.{is_utf8};
ghost use Rattle.imap_batch.specs.Batch.{event_count, flag_count, one_if};
ghost use Rattle.imap_batch.specs.Entered.{flag_change, flags_from, messages_from};
ghost use Rattle.imap_mailbox.specs.Expunging.{gone_at};
ghost use Rattle.imap_mailbox.specs.History.{end_uid};
ghost use Rattle.imap_modseq.specs.Numbers.{max_events};
ghost use Rattle.imap_records.specs.Bounds.{IsBounded};
ghost use Rattle.imap_records.specs.Steps.{batch_steps, below_of, count_steps, drop_step, flag_step};
ghost use Rattle.imap_records.specs.Steps.{gone_step, RemoveMessage, mark_steps, message_step, message_steps};
ghost use Rattle.imap_records.specs.Steps.{own_steps};
ghost use Rattle.imap_records.specs.Values.{BatchHasValues, IsNewMark, IsNewValue};
ghost use Rattle.imap_syntax.specs.Keywords.{AreKeywords};

use crate::columns::{date_text, flag_bits, keywords_text, place_value};
use crate::list::push;
use imap_batch::{BatchWrite, FlagUpdate, NewMessage, flag_count, own_changes};
use imap_mailbox::{SeenChange, SharedFlags};
use imap_modseq::MAX_EVENTS;
use imap_tables::{ChangeBelow, FlagsRow, MessageRow, SeenFlagRow};
use std::alloc::{AllocError, Global};

fn push_message(
    changes: &mut Vec<ChangeBelow>,
    alloc: Global,
    message: &NewMessage,
    uid: u32,
    place: u64,
) -> Result<(), AllocError>
    requires { place < max_events }
    ensures rows { OnOk result (map below_of changes.new.items ≡ map below_of changes.old.items
        ++ map message_step (messages_from uid place (message.now ∷ []))) }
    ensures valid { OnOk result (IsNewValue message.now) }
{
    let date = date_text(alloc, message.date)?;
    let octets = message.octets.try_copy()?;
    let keywords = keywords_text(alloc, message.flags.keywords.as_slice())?;
    let row = MessageRow {
        uid,
        date,
        octets,
        flags: flag_bits(&message.flags),
        keywords,
        place: place_value(place),
    };
    push(changes, ChangeBelow::AddMessage(row))
}

/// Appends the row of each message that is added, with UIDs and places in turn.
fn push_added(
    changes: &mut Vec<ChangeBelow>,
    alloc: Global,
    added: &[NewMessage],
    uid: u32,
    place: u64,
) -> Result<(), AllocError>
    requires uids { uid + length added.now ≤ end_uid }
    requires places { place + length added.now ≤ max_events }
    ensures rows { OnOk result (map below_of changes.new.items
        ≡ map below_of changes.old.items ++ map message_step (messages_from uid place added.now)) }
    ensures valid { OnOk result (AllByRecursion IsNewValue added.now) }
{
    let mut next = uid;
    let mut at = place;
    for message in added {
        push_message(changes, alloc, message, next, at)?;
        next += 1;
        at += 1;
    }
    Ok(())
}

fn push_flag(
    changes: &mut Vec<ChangeBelow>,
    alloc: Global,
    uid: u32,
    flags: &SharedFlags,
    place: u64,
) -> Result<(), AllocError>
    requires { place < max_events }
    ensures rows { OnOk result (map below_of changes.new.items ≡ map below_of changes.old.items
        ++ flag_step (record { uid = uid; flags = flags.now; place = place }) ∷ []) }
    ensures valid { OnOk result (AreKeywords flags.now.keywords) }
{
    let keywords = keywords_text(alloc, flags.keywords.as_slice())?;
    let row = FlagsRow {
        uid,
        flags: flag_bits(flags),
        keywords,
        place: place_value(place),
    };
    push(changes, ChangeBelow::FlagMessage(row))
}

/// Appends the row of the shared flags of a mark, if they change. Returns the place of the next event.
fn push_mark_flags(
    changes: &mut Vec<ChangeBelow>,
    alloc: Global,
    mark: &FlagUpdate,
    place: u64,
) -> Result<u64, AllocError>
    requires { place + one_if (is_some mark.now.flags) ≤ max_events }
    ensures rows { OnOk result (map below_of changes.new.items
        ≡ map below_of changes.old.items ++ map flag_step (flag_change place mark.now.uid mark.now.flags)) }
    ensures place { IfOk result (λ next. next ≡ place + one_if (is_some mark.now.flags)) }
    ensures valid { OnOk result (IsNewMark mark.now) }
{
    match &mark.flags {
        Some(flags) => {
            push_flag(changes, alloc, mark.uid, flags, place)?;
            Ok(place + 1)
        }
        None => Ok(place),
    }
}

/// Appends the rows of all shared flags that change, the first by the event at `place`.
fn push_flags(
    changes: &mut Vec<ChangeBelow>,
    alloc: Global,
    marks: &[FlagUpdate],
    place: u64,
) -> Result<(), AllocError>
    requires { place + flag_count marks.now ≤ max_events }
    ensures rows { OnOk result (map below_of changes.new.items
        ≡ map below_of changes.old.items ++ map flag_step (flags_from place marks.now)) }
    ensures valid { OnOk result (AllByRecursion IsNewMark marks.now) }
{
    let mut at = place;
    for mark in marks {
        at = push_mark_flags(changes, alloc, mark, at)?;
    }
    Ok(())
}

/// Appends that the rows of these messages go.
fn push_removed(changes: &mut Vec<ChangeBelow>, uids: &[u32]) -> Result<(), AllocError>
    ensures { OnOk result (map below_of changes.new.items
        ≡ map below_of changes.old.items ++ map RemoveMessage uids.now) }
{
    for uid in uids {
        push(changes, ChangeBelow::RemoveMessage(*uid))?;
    }
    Ok(())
}

/// Appends the rows of messages that were expunged, the first by the event at `place`.
fn push_gone(changes: &mut Vec<ChangeBelow>, uids: &[u32], place: u64) -> Result<(), AllocError>
    requires { place + length uids.now ≤ max_events }
    ensures { OnOk result (map below_of changes.new.items
        ≡ map below_of changes.old.items ++ map gone_step (gone_at place uids.now)) }
{
    let mut at = place;
    for uid in uids {
        push(changes, ChangeBelow::AddGone(*uid, place_value(at)))?;
        at += 1;
    }
    Ok(())
}

/// Appends that the user's own changes at these places go.
fn push_dropped(
    changes: &mut Vec<ChangeBelow>,
    alloc: Global,
    user: &str,
    places: &[u64],
) -> Result<(), AllocError>
    requires { AllByRecursion (λ p. p < max_events) places.now }
    ensures { OnOk result (map below_of changes.new.items
        ≡ map below_of changes.old.items ++ map (drop_step user.now) places.now) }
{
    for place in places {
        push_drop(changes, alloc, user, *place)?;
    }
    Ok(())
}

fn push_drop(
    changes: &mut Vec<ChangeBelow>,
    alloc: Global,
    user: &str,
    place: u64,
) -> Result<(), AllocError>
    requires { place < max_events }
    ensures { OnOk result (map below_of changes.new.items
        ≡ map below_of changes.old.items ++ drop_step user.now place ∷ []) }
{
    let user = String::from_str(alloc, user)?;
    push(changes, ChangeBelow::RemoveMark(user, place_value(place)))
}

fn push_mark(
    changes: &mut Vec<ChangeBelow>,
    alloc: Global,
    user: &str,
    place: u64,
    change: &SeenChange,
) -> Result<(), AllocError>
    requires place { place < max_events }
    requires before { change.now.before ≤ max_events }
    ensures { OnOk result (map below_of changes.new.items
        ≡ map below_of changes.old.items ++ mark_steps user.now place (change.now ∷ [])) }
{
    let user = String::from_str(alloc, user)?;
    let row = SeenFlagRow {
        user,
        own: place_value(place),
        before: change.before as i64,
        uid: change.uid,
        seen: change.seen,
    };
    push(changes, ChangeBelow::AddMark(row))
}

/// Appends the rows of a user's own changes, the first of which has the place. Those past the user's events
/// are left away.
fn push_marks(
    changes: &mut Vec<ChangeBelow>,
    alloc: Global,
    user: &str,
    place: u64,
    own: &[SeenChange],
) -> Result<(), AllocError>
    requires { All (λ s. s.before ≤ max_events) own.now }
    ensures { OnOk result (map below_of changes.new.items
        ≡ map below_of changes.old.items ++ mark_steps user.now place (take (max_events - place) own.now)) }
{
    let mut at = place;
    for change in own {
        if at >= MAX_EVENTS {
            return Ok(());
        }
        push_mark(changes, alloc, user, at, change)?;
        at += 1;
    }
    Ok(())
}

/// Appends UIDNEXT and the number of shared events, if there are new ones.
fn push_count(
    changes: &mut Vec<ChangeBelow>,
    write: &BatchWrite,
    events: u64,
) -> Result<(), AllocError>
    requires bounded { IsBounded write.now }
    requires events { events ≡ event_count write.now.batch }
    ensures { OnOk result
        (map below_of changes.new.items ≡ map below_of changes.old.items ++ count_steps write.now) }
{
    if events == 0 {
        return Ok(());
    }
    let uidnext = write.first_uid + write.batch.added.as_slice().len() as u32;
    let shared = (write.first_place + events) as i64;
    push(changes, ChangeBelow::Count(uidnext, shared))
}

/// Appends the rows of messages that are added, get flags and go.
fn push_messages(
    changes: &mut Vec<ChangeBelow>,
    alloc: Global,
    write: &BatchWrite,
) -> Result<u64, AllocError>
    requires { IsBounded write.now }
    ensures rows { OnOk result (map below_of changes.new.items
        ≡ map below_of changes.old.items ++ message_steps write.now) }
    ensures events { IfOk result (λ events. events ≡ event_count write.now.batch) }
    ensures valid { OnOk result (AllByRecursion IsNewValue write.now.batch.added
        × AllByRecursion IsNewMark write.now.batch.marks) }
{
    let added = write.batch.added.as_slice();
    push_added(changes, alloc, added, write.first_uid, write.first_place)?;
    let marks = write.batch.marks.as_slice();
    let marked = write.first_place + added.len() as u64;
    push_flags(changes, alloc, marks, marked)?;
    let expunged = write.batch.expunged.as_slice();
    push_removed(changes, expunged)?;
    let gone = marked + flag_count(marks) as u64;
    push_gone(changes, expunged, gone)?;
    Ok(gone + expunged.len() as u64 - write.first_place)
}

/// The rows of a batch.
pub(crate) fn rows_of_batch(
    alloc: Global,
    write: &BatchWrite,
) -> Result<Vec<ChangeBelow>, AllocError>
    requires { IsBounded write.now }
    ensures rows { IfOk result (λ changes. map below_of changes.items ≡ batch_steps write.now) }
    ensures valid { OnOk result (BatchHasValues write.now.batch) }
{
    let mut changes = Vec::new(alloc);
    let events = push_messages(&mut changes, alloc, write)?;
    push_own(&mut changes, alloc, write)?;
    push_count(&mut changes, write, events)?;
    Ok(changes)
}

/// Appends the rows of the user's own changes that go, and of those that come.
fn push_own(
    changes: &mut Vec<ChangeBelow>,
    alloc: Global,
    write: &BatchWrite,
) -> Result<(), AllocError>
    requires { IsBounded write.now }
    ensures rows { OnOk result (map below_of changes.new.items
        ≡ map below_of changes.old.items ++ own_steps write.now) }
    ensures valid { OnOk result (is_utf8 write.now.batch.user ≡ true) }
{
    let user = write.batch.user.as_str();
    push_dropped(changes, alloc, user, write.dropped.as_slice())?;
    let own = own_changes(alloc, &write.batch, write.first_uid, write.first_place)?;
    let own = own.as_slice();
    push_marks(changes, alloc, user, write.own_before, own)?;
    Ok(())
}
