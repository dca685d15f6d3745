//! The messages of one Maildir, added to its mailbox.

use crate::faults::{pass_over, pass_over_failed};
use crate::flagging::change_messages;
use crate::kept_mailboxes::KeptMailboxes;
use crate::kept_uids::{has_message, in_place};
use crate::loading::Loaded;
use crate::maildir_error::MaildirError;
use crate::message_files::{MessageFile, message_files};
use crate::moments::date_at;
use crate::progress::Progress;
use crate::reading::{Goal, Reading, Turn};
use crate::state_lines::UidState;
use crate::uid_pairs::UidPair;
use imap_batch::{Batch, NewMessage};
use imap_keeper::Keeper;
use imap_names::Name;
use imap_syntax::DateTime;
use std::alloc::{AllocError, Global};
use std::rt::Files;

/// Adds the messages of a Maildir that its mailbox hasn't. What its mailbox doesn't take is passed over. Returns the UIDs that
/// messages had and have.
pub(crate) fn load_messages<R: Files + AllocGlobal + Clone + Drop, K: Keeper, P: Progress>(
    rt: &R,
    kept: &mut KeptMailboxes<K>,
    goal: Goal<'_>,
    state: Option<UidState>,
    loaded: &mut Loaded,
    progress: &mut P,
) -> Result<Vec<UidPair>, MaildirError> {
    let files = message_files(rt, goal.path, &mut loaded.faults, progress)?;
    let mut reading = Reading::begin(rt, kept, goal, state, &mut loaded.faults, progress)?;
    let done = load_files(rt, kept, goal, &files, &mut reading, loaded, progress);
    drop(files);
    pass_over_failed(progress, &mut loaded.faults, done)?;
    Ok(reading.into_pairs())
}

/// Adds the messages in files of a Maildir that its mailbox hasn't. A file that can't be read is passed over.
fn load_files<R: Files + AllocGlobal + Clone + Drop, K: Keeper, P: Progress>(
    rt: &R,
    kept: &mut KeptMailboxes<K>,
    goal: Goal<'_>,
    files: &[MessageFile],
    reading: &mut Reading,
    loaded: &mut Loaded,
    progress: &mut P,
) -> Result<(), MaildirError> {
    for file in files {
        match load_file(rt, kept, goal, file, reading, loaded, progress) {
            Ok(is_met) => loaded.count_met(is_met),
            Err(error) => pass_over(progress, &mut loaded.faults, error)?,
        }
        if reading.pending.is_full() {
            save(rt.alloc(), kept, goal, reading, loaded)?;
            progress.done(loaded.added.saturating_add(loaded.met));
        }
    }
    finish(rt.alloc(), kept, goal, reading, loaded)
}

/// Saves what is left, and settles UIDs that are kept.
fn finish<K: Keeper>(
    alloc: Global,
    kept: &mut KeptMailboxes<K>,
    goal: Goal<'_>,
    reading: &mut Reading,
    loaded: &mut Loaded,
) -> Result<(), MaildirError> {
    fill_all(alloc, kept, goal, reading, loaded)?;
    save(alloc, kept, goal, reading, loaded)?;
    reading.settle(alloc, kept, goal)
}

/// Reads the message in a file. Returns whether the mailbox has it: otherwise it waits to be saved.
fn load_file<R: Files + AllocGlobal, K: Keeper, P: Progress>(
    rt: &R,
    kept: &mut KeptMailboxes<K>,
    goal: Goal<'_>,
    file: &MessageFile,
    reading: &mut Reading,
    loaded: &mut Loaded,
    progress: &mut P,
) -> Result<bool, MaildirError> {
    let message = reading.read(rt, file, &mut loaded.faults, progress)?;
    let alloc = rt.alloc();
    match reading.turn(file.uid(), next_uid(kept, goal.name, reading)) {
        Turn::There(uid) => add_there(alloc, kept, goal, file, reading, uid, message),
        Turn::Comes(uid) => {
            fill(alloc, kept, goal, reading, uid, message.date, loaded)?;
            reading.push_kept(alloc, uid, message)?;
            Ok(false)
        }
        Turn::Free => {
            fill_all(alloc, kept, goal, reading, loaded)?;
            add(kept, goal, file, reading, message)
        }
    }
}

/// The UID of the next message, once all that wait are saved.
fn next_uid<K: Keeper>(kept: &KeptMailboxes<K>, name: &Name, reading: &Reading) -> u32 {
    match kept.world().mailbox(&name.as_ref()) {
        Some(entry) => {
            let waiting = reading.pending.len() as u64;
            let next = waiting.saturating_add(entry.messages.as_ref().next_uid() as u64);
            next.min(u32::MAX as u64) as u32
        }
        None => 0,
    }
}

/// Meets the message that the mailbox has under the UID. If another one stands there, others' messages are in the mailbox, and
/// UIDs aren't kept.
fn add_there<K: Keeper>(
    alloc: Global,
    kept: &KeptMailboxes<K>,
    goal: Goal<'_>,
    file: &MessageFile,
    reading: &mut Reading,
    uid: u32,
    message: NewMessage,
) -> Result<bool, MaildirError> {
    if is_there(kept, goal.name, uid, &message) {
        reading.meet_kept(alloc, uid, message)?;
        return Ok(true);
    }
    if reading.has_added() {
        return Err(MaildirError::of_twice(alloc, file.path()));
    }
    reading.keep_none();
    add(kept, goal, file, reading, message)
}

fn is_there<K: Keeper>(
    kept: &KeptMailboxes<K>,
    name: &Name,
    uid: u32,
    message: &NewMessage,
) -> bool {
    match kept.world().mailbox(&name.as_ref()) {
        Some(entry) => has_message(entry.messages.as_ref(), uid, message),
        None => false,
    }
}

/// Meets the message if the mailbox has it, and lets it wait otherwise.
fn add<K: Keeper>(
    kept: &KeptMailboxes<K>,
    goal: Goal<'_>,
    file: &MessageFile,
    reading: &mut Reading,
    message: NewMessage,
) -> Result<bool, MaildirError> {
    let next = next_uid(kept, goal.name, reading);
    Ok(reading.meet_or_push(file.uid(), next, message)?)
}

/// Lets messages wait that stand in the places of those that are gone, up to UIDNEXT as it was, if UIDs are kept.
fn fill_all<K: Keeper>(
    alloc: Global,
    kept: &mut KeptMailboxes<K>,
    goal: Goal<'_>,
    reading: &mut Reading,
    loaded: &mut Loaded,
) -> Result<(), MaildirError> {
    match (reading.kept_next(), date_at(0)) {
        (Some(next), Some(date)) => fill(alloc, kept, goal, reading, next, date, loaded),
        _ => Ok(()),
    }
}

/// Lets messages wait that stand in the places of those that are gone, up to the UID.
fn fill<K: Keeper>(
    alloc: Global,
    kept: &mut KeptMailboxes<K>,
    goal: Goal<'_>,
    reading: &mut Reading,
    uid: u32,
    date: DateTime,
    loaded: &mut Loaded,
) -> Result<(), MaildirError> {
    for _ in next_uid(kept, goal.name, reading)..uid {
        reading.pending.push_in_place(in_place(alloc, date)?)?;
        if reading.pending.is_full() {
            save(alloc, kept, goal, reading, loaded)?;
        }
    }
    Ok(())
}

/// Adds the messages that wait to the mailbox of the Maildir, in one change.
fn save<K: Keeper>(
    alloc: Global,
    kept: &mut KeptMailboxes<K>,
    goal: Goal<'_>,
    reading: &mut Reading,
    loaded: &mut Loaded,
) -> Result<(), MaildirError> {
    if reading.pending.len() == 0 {
        return Ok(());
    }
    let count = reading.pending.count() as u64;
    let batch = adding(alloc, goal, reading.pending.take(alloc))?;
    change_messages(alloc, kept, goal.path, goal.name, batch)?;
    loaded.added = loaded.added.saturating_add(count);
    Ok(())
}

/// Returns what adds the messages. `\Seen` is that of the mailbox's owner, and of nobody in the Shared tree.
fn adding(
    alloc: Global,
    goal: Goal<'_>,
    mut messages: Vec<NewMessage>,
) -> Result<Batch, AllocError> {
    if goal.name.owner().is_none() {
        for message in messages.as_mut_slice() {
            message.seen = false;
        }
    }
    Batch::adding(alloc, goal.user, messages)
}
