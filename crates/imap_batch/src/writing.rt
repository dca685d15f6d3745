//! Writing a batch, in two halves.

ghost use Rattle.std.specs.Prelude.{◌≡◌, ◌+◌, ◌<◌, ◌≤◌, true, false, not, is_some, length, OnOk};
ghost use Rattle.std.specs.List.{list_all};
ghost use Rattle.imap_modseq.specs.Numbers.{max_events};
ghost use Rattle.imap_mailbox.specs.Flags.{has_too_many};
ghost use Rattle.imap_mailbox.specs.Held.{summary_in, own_room};
ghost use Rattle.imap_mailbox.specs.History.{end_uid};
ghost use Rattle.imap_batch.specs.Batch.{one_if, are_few, flag_count};
ghost use Rattle.imap_batch.specs.Batch.{added_seen_count, mark_seen_count, seen_count};
ghost use Rattle.imap_batch.specs.Written.{with_own, with_new, with_added, with_new_flags, with_new_seen};
ghost use Rattle.imap_batch.specs.Written.{with_mark, with_marks, with_batch, MayWrite, HasRoomFor};

use crate::batch::{Batch, FlagUpdate, NewMessage};
use crate::write::BatchWrite;
use imap_mailbox::{Mailbox, SharedFlags};
use imap_modseq::MAX_EVENTS;
use std::alloc::{AllocError, Global};
use std::collections::VecDeque;

/// Returns the number of added messages that the user has seen.
pub fn added_seen_count(added: &[NewMessage]) -> usize
    ensures count { result ≡ added_seen_count added.now }
    ensures most { result ≤ length added.now }
{
    let mut count = 0;
    for message in added {
        count += message.seen as usize;
    }
    count
}

/// Returns the number of marks that change the user's own `\Seen`.
pub fn mark_seen_count(marks: &[FlagUpdate]) -> usize
    ensures count { result ≡ mark_seen_count marks.now }
    ensures most { result ≤ length marks.now }
{
    let mut count = 0;
    for mark in marks {
        let changes = mark.seen.is_some();
        count += changes as usize;
    }
    count
}

/// Returns the number of changes of the user's own `\Seen`.
fn seen_count(batch: &Batch) -> usize
    ensures { result ≡ seen_count batch.now }
{
    let added = added_seen_count(batch.added.as_slice());
    let marked = mark_seen_count(batch.marks.as_slice());
    added + marked
}

/// Makes room for what is written. It changes nothing that is kept.
pub fn make_room(mailbox: &mut Mailbox, alloc: Global, write: &BatchWrite) -> Result<(), AllocError>
    ensures contents { summary_in mailbox.new ≡ summary_in mailbox.old }
    ensures ok { OnOk result (HasRoomFor write.now.batch mailbox.new) }
{
    let batch = &write.batch;
    let added = batch.added.as_slice().len();
    let expunged = batch.expunged.as_slice().len();
    mailbox.reserve(added, expunged)?;
    reserve_own(mailbox, alloc, batch.user.as_str(), seen_count(batch))
}

fn reserve_own(
    mailbox: &mut Mailbox,
    alloc: Global,
    user: &str,
    more: usize,
) -> Result<(), AllocError>
    ensures contents { summary_in mailbox.new ≡ summary_in mailbox.old }
    ensures add_room { mailbox.new.add_room ≡ mailbox.old.add_room }
    ensures expunge_room { mailbox.new.expunge_room ≡ mailbox.old.expunge_room }
    ensures ok { OnOk result (more ≤ own_room mailbox.new.own user.now) }
{
    if more == 0 {
        return Ok(());
    }
    mailbox.reserve_seen(alloc, user, more)
}

/// Writes a batch, in room that is there. It must be what [`resolve`](crate::resolve) finds for the mailbox
/// as it is.
pub fn write_batch(mailbox: &mut Mailbox, write: BatchWrite)
    requires room { HasRoomFor write.batch mailbox.old }
    requires may { MayWrite write (summary_in mailbox.old) }
    ensures { summary_in mailbox.new ≡ with_batch write.batch (summary_in mailbox.old) }
{
    let Batch {
        user,
        added,
        marks,
        expunged,
    } = write.batch;
    add_all(mailbox, user.as_str(), added.into_vec());
    mark_all(mailbox, user.as_str(), marks.into_vec());
    mailbox.expunge_all_reserved(expunged.as_slice());
}

/// Adds messages, in room that is there.
fn add_all(mailbox: &mut Mailbox, user: &str, added: Vec<NewMessage>)
    requires room { length added.items ≤ mailbox.old.add_room }
    requires own_room { added_seen_count added.items ≤ own_room mailbox.old.own user.now }
    requires uids { 0 < length added.items → mailbox.old.next + length added.items ≤ end_uid }
    requires few { mailbox.old.shared + length added.items ≤ max_events }
    requires keywords { list_all (λ m. not (has_too_many m.flags)) added.items ≡ true }
    ensures contents { summary_in mailbox.new ≡ with_added user.now added.items (summary_in mailbox.old) }
    ensures own_room { own_room mailbox.old.own user.now
        ≤ own_room mailbox.new.own user.now + added_seen_count added.items }
    ensures expunge_room { mailbox.new.expunge_room ≡ mailbox.old.expunge_room }
{
    let mut rest = VecDeque::from_vec(added);
    while let Some(message) = rest.pop_front() {
        add_one(mailbox, user, message);
    }
}

fn add_one(mailbox: &mut Mailbox, user: &str, message: NewMessage)
    requires room { 0 < mailbox.old.add_room }
    requires own_room { one_if message.seen ≤ own_room mailbox.old.own user.now }
    requires uids { mailbox.old.next < end_uid }
    requires few { mailbox.old.shared < max_events }
    requires keywords { has_too_many message.flags ≡ false }
    ensures contents { summary_in mailbox.new ≡ with_new user.now message (summary_in mailbox.old) }
    ensures own_room { own_room mailbox.old.own user.now
        ≤ own_room mailbox.new.own user.now + one_if message.seen }
    ensures add_room { mailbox.old.add_room ≤ mailbox.new.add_room + 1 }
    ensures expunge_room { mailbox.new.expunge_room ≡ mailbox.old.expunge_room }
{
    let NewMessage {
        date,
        octets,
        flags,
        seen,
    } = message;
    let uid = mailbox.add_reserved(date, octets, flags);
    if seen {
        put_seen(mailbox, user, uid, true);
    }
}

/// Changes flags, in room that is there.
fn mark_all(mailbox: &mut Mailbox, user: &str, marks: Vec<FlagUpdate>)
    requires own_room { mark_seen_count marks.items ≤ own_room mailbox.old.own user.now }
    requires few { mailbox.old.shared + flag_count marks.items ≤ max_events }
    requires keywords { list_all (λ k. are_few k.flags) marks.items ≡ true }
    ensures contents { summary_in mailbox.new ≡ with_marks user.now marks.items (summary_in mailbox.old) }
    ensures expunge_room { mailbox.new.expunge_room ≡ mailbox.old.expunge_room }
{
    let mut rest = VecDeque::from_vec(marks);
    while let Some(mark) = rest.pop_front() {
        mark_one(mailbox, user, mark);
    }
}

fn mark_one(mailbox: &mut Mailbox, user: &str, mark: FlagUpdate)
    requires own_room { one_if (is_some mark.seen) ≤ own_room mailbox.old.own user.now }
    requires few { mailbox.old.shared + one_if (is_some mark.flags) ≤ max_events }
    requires keywords { are_few mark.flags ≡ true }
    ensures contents { summary_in mailbox.new ≡ with_mark user.now mark (summary_in mailbox.old) }
    ensures own_room { own_room mailbox.old.own user.now
        ≤ own_room mailbox.new.own user.now + one_if (is_some mark.seen) }
    ensures expunge_room { mailbox.new.expunge_room ≡ mailbox.old.expunge_room }
{
    let FlagUpdate { uid, flags, seen } = mark;
    set_flags(mailbox, uid, flags);
    mark_seen(mailbox, user, uid, seen);
}

fn set_flags(mailbox: &mut Mailbox, uid: u32, flags: Option<SharedFlags>)
    requires few { mailbox.old.shared + one_if (is_some flags) ≤ max_events }
    requires keywords { are_few flags ≡ true }
    ensures contents { summary_in mailbox.new ≡ with_new_flags uid flags (summary_in mailbox.old) }
    ensures own { mailbox.new.own ≡ mailbox.old.own }
    ensures add_room { mailbox.new.add_room ≡ mailbox.old.add_room }
    ensures expunge_room { mailbox.new.expunge_room ≡ mailbox.old.expunge_room }
{
    match flags {
        Some(flags) => mailbox.set_flags_reserved(uid, flags),
        None => {}
    }
}

/// Changes the user's own `\Seen`, if the user has an own event left.
fn mark_seen(mailbox: &mut Mailbox, user: &str, uid: u32, seen: Option<bool>)
    requires own_room { one_if (is_some seen) ≤ own_room mailbox.old.own user.now }
    ensures contents { summary_in mailbox.new ≡ with_new_seen user.now uid seen (summary_in mailbox.old) }
    ensures own_room { own_room mailbox.old.own user.now
        ≤ own_room mailbox.new.own user.now + one_if (is_some seen) }
    ensures add_room { mailbox.new.add_room ≡ mailbox.old.add_room }
    ensures expunge_room { mailbox.new.expunge_room ≡ mailbox.old.expunge_room }
{
    match seen {
        Some(seen) => put_seen(mailbox, user, uid, seen),
        None => {}
    }
}

fn put_seen(mailbox: &mut Mailbox, user: &str, uid: u32, seen: bool)
    requires own_room { 0 < own_room mailbox.old.own user.now }
    ensures contents { summary_in mailbox.new ≡ with_own user.now uid seen (summary_in mailbox.old) }
    ensures own_room { own_room mailbox.old.own user.now ≤ own_room mailbox.new.own user.now + 1 }
    ensures add_room { mailbox.new.add_room ≡ mailbox.old.add_room }
    ensures expunge_room { mailbox.new.expunge_room ≡ mailbox.old.expunge_room }
{
    if mailbox.own_len(user) < MAX_EVENTS {
        mailbox.mark_seen_reserved(user, uid, seen);
    }
}
