//! Changes that may be refused. One that is refused leaves the mailbox as it was.

ghost use Rattle.std.specs.Prelude.{◌≡◌, OnErr, IfOk};
ghost use Rattle.imap_mailbox.specs.Held.{summary_in};
ghost use Rattle.imap_mailbox.specs.Flags.{has_too_many};
ghost use Rattle.imap_mailbox.specs.Calls.{Makes, Changes};
ghost use Rattle.imap_mailbox.specs.Calls.{add_result, set_flags_result, expunge_result, mark_seen_result};

use crate::error::MailboxError;
use crate::flags::SharedFlags;
use crate::mailbox::Mailbox;
use imap_modseq::MAX_EVENTS;
use imap_syntax::{DateTime, Octets};
use std::alloc::Global;

/// The most keywords of a message.
pub const MAX_KEYWORDS: usize = 32;

// Whether a message may not have the flags.
pub(crate) fn has_too_many(flags: &SharedFlags) -> bool
    ensures { result ≡ has_too_many flags.now }
{
    flags.keywords.len() > MAX_KEYWORDS
}

impl Mailbox {
    /// Adds a message and returns its UID. Fails with `Full` if [`room`](Mailbox::room) is 0, then with
    /// `Limit` if `flags` has over [`MAX_KEYWORDS`] keywords, and then with `Memory`.
    pub fn add(
        &mut self,
        max_messages: u64,
        date: DateTime,
        octets: Octets,
        flags: SharedFlags,
    ) -> Result<u32, MailboxError>
        ensures changes { Changes result (summary_in self.new)
            (add_result max_messages date octets flags (summary_in self.old)) }
        ensures err { OnErr result (summary_in self.new ≡ summary_in self.old) }
        ensures uid { IfOk result (λ uid. uid ≡ self.old.next) }
    {
        if self.room(max_messages) == 0 {
            return Err(MailboxError::Full);
        }
        if has_too_many(&flags) {
            return Err(MailboxError::Limit);
        }
        match self.reserve(1, 0) {
            Ok(()) => Ok(self.add_reserved(date, octets, flags)),
            Err(_) => Err(MailboxError::Memory),
        }
    }

    /// Sets the shared flags of a message. Flags that stay as they are are no event. Fails with `NoSuchUid`,
    /// and else with `Limit` if there are over [`MAX_KEYWORDS`] keywords or [`MAX_EVENTS`] shared events. It
    /// takes no memory.
    pub fn set_flags(&mut self, uid: u32, flags: SharedFlags) -> Result<(), MailboxError>
        ensures makes { Makes result (summary_in self.new)
            (set_flags_result uid flags (summary_in self.old)) }
        ensures err { OnErr result (summary_in self.new ≡ summary_in self.old) }
    {
        match self.find(uid) {
            Some(message) => {
                if message.flags.is_equal(&flags) {
                    return Ok(());
                }
                if has_too_many(&flags) {
                    return Err(MailboxError::Limit);
                }
                if self.shared_len() == MAX_EVENTS {
                    return Err(MailboxError::Limit);
                }
                self.put_flags(uid, flags);
                Ok(())
            }
            None => Err(MailboxError::NoSuchUid),
        }
    }

    /// Expunges a message. Fails with `NoSuchUid`, then with `Limit` if there are [`MAX_EVENTS`] shared
    /// events, and then with `Memory`.
    pub fn expunge(&mut self, uid: u32) -> Result<(), MailboxError>
        ensures changes { Changes result (summary_in self.new) (expunge_result uid (summary_in self.old)) }
        ensures err { OnErr result (summary_in self.new ≡ summary_in self.old) }
    {
        match self.find(uid) {
            Some(_) => {
                if self.shared_len() == MAX_EVENTS {
                    return Err(MailboxError::Limit);
                }
                match self.reserve(0, 1) {
                    Ok(()) => {
                        self.remove(uid);
                        Ok(())
                    }
                    Err(_) => Err(MailboxError::Memory),
                }
            }
            None => Err(MailboxError::NoSuchUid),
        }
    }

    /// Sets a user's own `\Seen` of a message, or takes it away. A flag that stays as it is is no event.
    /// Fails with `NoSuchUid`, then with `Limit` if `user` has [`MAX_EVENTS`] own changes, and then with
    /// `Memory`.
    pub fn mark_seen(
        &mut self,
        alloc: Global,
        user: &str,
        uid: u32,
        seen: bool,
    ) -> Result<(), MailboxError>
        ensures changes { Changes result (summary_in self.new)
            (mark_seen_result user.now uid seen (summary_in self.old)) }
        ensures err { OnErr result (summary_in self.new ≡ summary_in self.old) }
    {
        match self.find(uid) {
            Some(_) => {
                if self.seen_of(user, uid) == seen {
                    return Ok(());
                }
                if self.own_len(user) == MAX_EVENTS {
                    return Err(MailboxError::Limit);
                }
                match self.reserve_seen(alloc, user, 1) {
                    Ok(()) => {
                        self.put_seen(user, uid, seen);
                        Ok(())
                    }
                    Err(_) => Err(MailboxError::Memory),
                }
            }
            None => Err(MailboxError::NoSuchUid),
        }
    }
}
