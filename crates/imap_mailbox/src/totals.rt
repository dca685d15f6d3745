//! The number of messages with `\Deleted`, and the octets of all messages.

ghost use Rattle.std.specs.Prelude.{◌≡◌, ℕ, ◌+◌, ◌-◌, ◌≤◌, [], map, if◌then◌else◌};
ghost use Rattle.imap_mailbox.specs.declared.flags.SharedFlags.{SharedFlags};
ghost use Rattle.imap_mailbox.specs.Expunging.{without_all};
ghost use Rattle.imap_mailbox.specs.Summary.{AreRising, uids_in, flags_in};
ghost use Rattle.imap_mailbox.specs.Totals.{AreTotals, AreOfGone, ArePartedFrom, IsWith, IsWithAny};

use crate::message::{Message, find_message, find_message_near};
use crate::status::{MAX_SIZE, count_deleted, sum_sizes};

/// The totals over all messages of a mailbox.
#[derive(Clone, Copy)]
pub struct Totals {
    /// The number of messages with `\Deleted`.
    pub deleted: usize,
    /// The number of octets of all messages, or [`MAX_SIZE`] if there are more.
    pub size: u64,
}

impl Totals {
    /// The totals of no messages.
    pub(crate) fn none() -> Totals
        ensures { AreTotals [] result }
    {
        Totals {
            deleted: 0,
            size: 0,
        }
    }

    /// The totals of these messages, by a walk.
    pub(crate) fn of(messages: &[Message]) -> Totals
        ensures { AreTotals messages.now result }
    {
        Totals {
            deleted: count_deleted(messages),
            size: sum_sizes(messages),
        }
    }

    /// The totals of those of the messages that have these UIDs.
    pub(crate) fn of_uids(messages: &[Message], uids: &[u32]) -> Totals
        requires messages { AreRising (uids_in messages.now) }
        requires uids { AreRising uids.now }
        ensures { AreOfGone messages.now (without_all uids.now messages.now) result }
    {
        let mut totals = Totals::none();
        let mut near = 0;
        for uid in uids {
            totals.add_if_there(messages, *uid, &mut near);
        }
        totals
    }

    /// Adds the message with the UID, if there is one, and sets `near` to its place.
    fn add_if_there(&mut self, messages: &[Message], uid: u32, near: &mut usize)
        requires messages { AreRising (uids_in messages.now) }
        requires few { self.old.deleted + 1 ≤ 18446744073709551615 }
        ensures { IsWithAny uid messages.now self.old self.new }
    {
        match find_message_near(messages, uid, *near) {
            Some(place) => {
                *near = place;
                let message = &messages[place];
                self.add(message.flags.deleted, message.octets.as_slice().len());
            }
            None => {}
        }
    }

    /// Adds a message: whether it has `\Deleted`, and the number of its octets.
    pub(crate) fn add(&mut self, deleted: bool, len: usize)
        requires few { self.old.deleted + 1 ≤ 18446744073709551615 }
        ensures { IsWith deleted len self.old self.new }
    {
        self.deleted += deleted as usize;
        self.size = self.size.saturating_add(len as u64).min(MAX_SIZE);
    }

    /// Takes those of messages that went away. They were there, and `left` are the others, which are walked
    /// if there were more octets than the size says.
    pub(crate) fn lower(&mut self, went: Totals, left: &[Message])
        requires { ArePartedFrom left.now self.old went }
        ensures { AreTotals left.now self.new }
    {
        self.deleted -= went.deleted;
        if self.size < MAX_SIZE {
            self.size -= went.size;
        } else {
            self.size = sum_sizes(left);
        }
    }

    /// The message with the UID, if there is one, gets other flags: with `\Deleted`, or without it.
    pub(crate) fn put_deleted(&mut self, messages: &[Message], uid: u32, deleted: bool)
        requires messages { AreRising (uids_in messages.now) }
        requires totals { AreTotals messages.now self.old }
        ensures { (flags : SharedFlags) (place : ℕ) → flags.deleted ≡ deleted
            → AreTotals (map (flags_in uid flags place) messages.now) self.new }
    {
        match find_message(messages, uid) {
            Some(place) => {
                let message = &messages[place];
                self.move_deleted(message.flags.deleted, deleted);
            }
            None => {}
        }
    }

    /// A message with or without `\Deleted` now has it or not.
    fn move_deleted(&mut self, before: bool, now: bool)
        requires there { (if before then 1 else 0) ≤ self.old.deleted }
        requires few { self.old.deleted - (if before then 1 else 0) + (if now then 1 else 0)
            ≤ 18446744073709551615 }
        ensures deleted { self.new.deleted
            ≡ self.old.deleted - (if before then 1 else 0) + (if now then 1 else 0) }
        ensures size { self.new.size ≡ self.old.size }
    {
        self.deleted = self.deleted - before as usize + now as usize;
    }
}
