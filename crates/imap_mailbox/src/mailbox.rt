//! One mailbox.

ghost use Rattle.std.specs.Prelude.{◌≡◌, ◌↔◌, ℕ, ◌+◌, ◌<◌, ◌≤◌, List, [], true, length, option_copied, IsTrue};
ghost use Rattle.std.specs.Prelude.{OnSome, OnOk, IfOk};
ghost use Rattle.std.specs.FinMap as map;
ghost use Rattle.imap_modseq.specs.Numbers.{max_events, max_number};
ghost use Rattle.imap_mailbox.specs.Flags.{HasFewKeywords};
ghost use Rattle.imap_mailbox.specs.Rows.{WasGiven};
ghost use Rattle.imap_mailbox.specs.History.{end_uid};
ghost use Rattle.imap_mailbox.specs.KeptRows.{dropped_for};
ghost use Rattle.imap_mailbox.specs.Own.{own_at};
ghost use Rattle.imap_mailbox.specs.Summary.{new_summary, with_arrival, with_flags, with_expunge, with_seen};
ghost use Rattle.imap_mailbox.specs.Summary.{rows_of, gone_of, highest_of, room_of, is_there, latest};
ghost use Rattle.imap_mailbox.specs.Summary.{latest_seen, AreRising};
ghost use Rattle.imap_mailbox.specs.Held.{summary_in, lists, own_room, IsKept};
ghost use Rattle.imap_mailbox.specs.Calls.{message_at, arrival, if_there};
ghost use Rattle.imap_mailbox.specs.Expunging.{with_expunges};
ghost use Rattle.imap_mailbox.specs.Lent.{gone_after_number};
ghost use Rattle.imap_mailbox.specs.Order.{AreRowsInOrder, AreGoneInOrder};
ghost use Rattle.imap_mailbox.specs.Parts.{Restores};

use crate::copies::{copy_items, copy_messages};
use crate::counting::{count_all, forget_gone};
use crate::expunging::{Rising, push_gone, remove_messages};
use crate::flags::SharedFlags;
use crate::gone::GoneUids;
use crate::marks::{mark_own, reserve_own};
use crate::message::{GoneMessage, Message, find_message, remove_message, set_message_flags};
use crate::own::{OwnSeen, SeenChange};
use crate::own_lists::own_lists;
use crate::parts::{MailboxParts, PartsError};
use crate::recent_events::RecentEvents;
use crate::restored::{check_messages, sort_by_place, sort_by_uid};
use crate::rows::Rows;
use crate::totals::Totals;
use imap_modseq::{MAX_EVENTS, highest_after};
use imap_syntax::{DateTime, Octets, are_same};
use imap_user_map::UserMap;
use imap_values::same_two;
use std::alloc::{AllocError, Global};
use std::marker::Model;

/// The messages of a mailbox, what each user changed of `\Seen`, and what was expunged.
///
/// Contracts see its [summary](crate::laws) with its room. Methods that end in `_reserved` take no memory:
/// they commit what was decided, in room that was made before.
pub struct Mailbox {
    messages: Vec<Message>,
    gone: Vec<GoneMessage>,
    next: u32,
    shared: u64,
    own: UserMap<OwnSeen>,
    // Contracts see no more of it than that rows are found by it.
    recent: RecentEvents,
    // Contracts see no more of them than that rows tell them.
    totals: Totals,
}

// Not derived: a derived one is proved anew in each crate that lets go of one.
impl Drop for Mailbox {
    fn drop(self) {
        let Mailbox {
            messages: _,
            gone: _,
            next: _,
            shared: _,
            own: _,
            recent: _,
            totals: _,
        } = self;
    }
}

impl Model for Mailbox {
    ghost use Rattle.std.specs.Prelude.{◌-◌, vec_len};
    ghost use Rattle.std.specs.Vec.{vec_capacity};
    ghost use Rattle.imap_mailbox.specs.Counted.{AreCounted};
    ghost use Rattle.imap_mailbox.specs.Held.{Held, held_code, summary_with, IsKept};
    ghost use Rattle.imap_mailbox.specs.Recent.{AreNoted};
    ghost use Rattle.imap_mailbox.specs.Totals.{AreTotals};

    ghost Value = { Held };

    ghost coded = { held_code };

    ghost view = { λ m. record {
      messages = m.messages.items;
      gone = m.gone.items;
      next = m.next;
      shared = m.shared;
      own = m.own;
      add_room = vec_capacity m.messages - vec_len m.messages;
      expunge_room = vec_capacity m.gone - vec_len m.gone;
    } };

    ghost invariant = { λ m. IsKept (summary_with m.messages.items m.gone.items m.next m.shared m.own)
        × AreCounted m.messages.items m.own × AreNoted m.shared m.messages.items m.recent
        × AreTotals m.messages.items m.totals };
}

impl Mailbox {
    /// A mailbox without messages, whose first UID is 1.
    pub fn new(alloc: Global) -> Self
        ensures { summary_in result ≡ new_summary map.empty }
    {
        Mailbox {
            messages: Vec::new(alloc),
            gone: Vec::new(alloc),
            next: 1,
            shared: 0,
            own: UserMap::new(alloc),
            recent: RecentEvents::new(alloc, 0),
            totals: Totals::none(),
        }
    }

    /// The mailbox for which the parts stand. Fails with `Bad` if they stand for none: if a UID below UIDNEXT
    /// is missing, or stands twice, among the messages and those that are gone; a UID is UIDNEXT or more; a
    /// place is that of two messages, or of no shared event; a message has over
    /// [`MAX_KEYWORDS`](crate::MAX_KEYWORDS) keywords; two of a user's own changes have one place, they
    /// are out of order, or one is of a UID that was never given; or a number of events is over
    /// [`MAX_EVENTS`](imap_modseq::MAX_EVENTS).
    pub fn from_parts(alloc: Global, parts: MailboxParts) -> Result<Mailbox, PartsError>
        ensures { Restores parts result }
    {
        let MailboxParts {
            next,
            shared,
            mut messages,
            mut gone,
            own,
        } = parts;
        check_messages(alloc, &messages, &gone, next, shared)?;
        let mut own = own_lists(alloc, own, next, shared)?;
        sort_by_uid(&mut messages);
        sort_by_place(&mut gone);
        count_all(&mut own, &messages);
        let totals = Totals::of(&messages);
        Ok(Mailbox {
            messages,
            gone,
            next,
            shared,
            own,
            recent: RecentEvents::new(alloc, shared),
            totals,
        })
    }

    /// Returns a copy that shares octets and keywords. Its room may be another.
    pub fn try_copy(&self, alloc: Global) -> Result<Mailbox, AllocError>
        ensures { IfOk result (λ copy. summary_in copy ≡ summary_in self.now) }
    {
        let messages = copy_messages(alloc, &self.messages)?;
        let gone = copy_items(alloc, &self.gone)?;
        let own = self.own.try_copy(alloc)?;
        let recent = self.recent.try_copy(alloc)?;
        Ok(Mailbox {
            messages,
            gone,
            next: self.next,
            shared: self.shared,
            own,
            recent,
            totals: self.totals,
        })
    }

    /// Whether both hold the same, whatever their room.
    pub fn is_same(&self, other: &Mailbox) -> bool
        ensures { IsTrue result ↔ (summary_in self.now ≡ summary_in other.now) }
    {
        same_two(&self.next, &other.next, &self.shared, &other.shared) && self.has_same_lists(other)
    }

    /// Whether both have the same messages, the same that are gone, and the same own changes.
    fn has_same_lists(&self, other: &Mailbox) -> bool
        ensures messages { IsTrue result → self.now.messages ≡ other.now.messages }
        ensures gone { IsTrue result → self.now.gone ≡ other.now.gone }
        ensures own { IsTrue result → lists self.now.own ≡ lists other.now.own }
        ensures all { self.now.messages ≡ other.now.messages → self.now.gone ≡ other.now.gone
            → lists self.now.own ≡ lists other.now.own → IsTrue result }
    {
        are_same(&self.messages, &other.messages)
            && are_same(&self.gone, &other.gone)
            && self.own.is_same(&other.own)
    }

    /// Makes room for `added` messages to be added and for `expunged` to be expunged.
    pub fn reserve(&mut self, added: usize, expunged: usize) -> Result<(), AllocError>
        ensures contents { summary_in self.new ≡ summary_in self.old }
        ensures own { self.new.own ≡ self.old.own }
        ensures ok { OnOk result ((added ≤ self.new.add_room) × (expunged ≤ self.new.expunge_room)) }
        ensures add_room { self.old.add_room ≤ self.new.add_room }
        ensures expunge_room { self.old.expunge_room ≤ self.new.expunge_room }
    {
        self.recent.make_room()?;
        self.messages.reserve(added)?;
        self.gone.reserve(expunged)
    }

    /// Adds a message, in room that is there, and returns its UID.
    pub fn add_reserved(&mut self, date: DateTime, octets: Octets, flags: SharedFlags) -> u32
        requires room { 0 < self.old.add_room }
        requires uids { self.old.next < end_uid }
        requires few { self.old.shared < max_events }
        requires keywords { HasFewKeywords flags }
        ensures contents { summary_in self.new
            ≡ with_arrival (arrival self.old.next date octets flags) (summary_in self.old) }
        ensures own { self.new.own ≡ self.old.own }
        ensures add_room { self.old.add_room ≤ self.new.add_room + 1 }
        ensures expunge_room { self.new.expunge_room ≡ self.old.expunge_room }
        ensures uid { result ≡ self.old.next }
    {
        let uid = self.next;
        let place = self.shared;
        self.totals.add(flags.deleted, octets.as_slice().len());
        self.messages.push_reserved(Message {
            uid,
            date,
            octets,
            flags,
            place,
        });
        self.recent.note(uid);
        self.next = uid + 1;
        self.shared = place + 1;
        uid
    }

    /// Sets the shared flags of a message. It takes no room.
    pub fn set_flags_reserved(&mut self, uid: u32, flags: SharedFlags)
        requires few { self.old.shared < max_events }
        requires keywords { HasFewKeywords flags }
        ensures contents { summary_in self.new
            ≡ if_there uid (with_flags uid flags (summary_in self.old)) (summary_in self.old) }
        ensures own { self.new.own ≡ self.old.own }
        ensures add_room { self.new.add_room ≡ self.old.add_room }
        ensures expunge_room { self.new.expunge_room ≡ self.old.expunge_room }
    {
        if self.contains(uid) {
            self.put_flags(uid, flags);
        }
    }

    /// Expunges a message, in room that is there.
    pub fn expunge_reserved(&mut self, uid: u32)
        requires room { 0 < self.old.expunge_room }
        requires few { self.old.shared < max_events }
        ensures contents { summary_in self.new
            ≡ if_there uid (with_expunge uid (summary_in self.old)) (summary_in self.old) }
        ensures own_room { (user : List ℕ) → own_room self.new.own user ≡ own_room self.old.own user }
        ensures add_room { self.old.add_room ≤ self.new.add_room }
        ensures expunge_room { self.old.expunge_room ≤ self.new.expunge_room + 1 }
    {
        if self.contains(uid) {
            self.remove(uid);
        }
    }

    /// Expunges the messages with these UIDs, in this order, in room that is there. UIDs that no message has
    /// change nothing. It passes the messages and the UIDs side by side, and the UIDs that went once for each
    /// user with own changes.
    pub fn expunge_all_reserved(&mut self, uids: &[u32])
        requires rising { AreRising uids.now }
        requires room { length uids.now ≤ self.old.expunge_room }
        requires few { self.old.shared + length uids.now ≤ max_events }
        ensures contents { summary_in self.new ≡ with_expunges uids.now (summary_in self.old) }
        ensures own_room { (user : List ℕ) → own_room self.new.own user ≡ own_room self.old.own user }
        ensures add_room { self.old.add_room ≤ self.new.add_room }
        ensures expunge_room { self.old.expunge_room ≤ self.new.expunge_room + length uids.now }
    {
        if uids.is_empty() {
            return;
        }
        let place = self.shared;
        let first = self.gone.len();
        let next = push_gone(&mut self.gone, &self.messages, uids, place);
        let (_, gone) = self.gone.split_at(first);
        forget_gone(&mut self.own, gone);
        self.recent.note_all(gone);
        let went = Totals::of_uids(&self.messages, uids);
        remove_messages(&mut self.messages, &Rising { uids });
        self.totals.lower(went, &self.messages);
        self.shared = next;
    }

    /// Sets a user's own `\Seen` of a message or takes it away, in room that is there.
    pub fn mark_seen_reserved(&mut self, user: &str, uid: u32, seen: bool)
        requires room { 0 < own_room self.old.own user.now }
        requires few { length (own_at (summary_in self.old).own user.now).befores < max_events }
        ensures contents { summary_in self.new
            ≡ if_there uid (with_seen user.now uid seen (summary_in self.old)) (summary_in self.old) }
        ensures own_room { own_room self.old.own user.now ≤ own_room self.new.own user.now + 1 }
        ensures add_room { self.new.add_room ≡ self.old.add_room }
        ensures expunge_room { self.new.expunge_room ≡ self.old.expunge_room }
    {
        if self.contains(uid) {
            self.put_seen(user, uid, seen);
        }
    }

    /// Sets the shared flags of a message that was added. It takes no room.
    pub(crate) fn put_flags(&mut self, uid: u32, flags: SharedFlags)
        requires few { self.old.shared < max_events }
        requires keywords { HasFewKeywords flags }
        ensures contents { summary_in self.new ≡ with_flags uid flags (summary_in self.old) }
        ensures own { self.new.own ≡ self.old.own }
        ensures add_room { self.new.add_room ≡ self.old.add_room }
        ensures expunge_room { self.new.expunge_room ≡ self.old.expunge_room }
    {
        let place = self.shared;
        self.totals.put_deleted(&self.messages, uid, flags.deleted);
        set_message_flags(&mut self.messages, uid, flags, place);
        self.recent.note(uid);
        self.shared = place + 1;
    }

    /// Expunges a message that is there, in room that is there.
    pub(crate) fn remove(&mut self, uid: u32)
        requires there { is_there uid (summary_in self.old) ≡ true }
        requires room { 0 < self.old.expunge_room }
        requires few { self.old.shared < max_events }
        ensures contents { summary_in self.new ≡ with_expunge uid (summary_in self.old) }
        ensures own_room { (user : List ℕ) → own_room self.new.own user ≡ own_room self.old.own user }
        ensures add_room { self.old.add_room ≤ self.new.add_room }
        ensures expunge_room { self.old.expunge_room ≤ self.new.expunge_room + 1 }
    {
        let place = self.shared;
        let gone = GoneMessage { uid, place };
        let went = Totals::of_uids(&self.messages, &[uid]);
        remove_message(&mut self.messages, uid);
        self.totals.lower(went, &self.messages);
        self.gone.push_reserved(gone);
        forget_gone(&mut self.own, &[gone]);
        self.recent.note(uid);
        self.shared = place + 1;
    }

    /// Sets a user's own `\Seen` of a message that is there or takes it away, in room that is there.
    pub(crate) fn put_seen(&mut self, user: &str, uid: u32, seen: bool)
        requires room { 0 < own_room self.old.own user.now }
        requires there { is_there uid (summary_in self.old) ≡ true }
        requires few { length (own_at (summary_in self.old).own user.now).befores < max_events }
        ensures contents { summary_in self.new ≡ with_seen user.now uid seen (summary_in self.old) }
        ensures own_room { own_room self.old.own user.now ≤ own_room self.new.own user.now + 1 }
        ensures add_room { self.new.add_room ≡ self.old.add_room }
        ensures expunge_room { self.new.expunge_room ≡ self.old.expunge_room }
    {
        let before = self.shared;
        mark_own(&mut self.own, user, SeenChange { before, uid, seen });
    }

    /// Makes room for `more` own changes of a user, each of which pays for one call of
    /// [`mark_seen_reserved`](Mailbox::mark_seen_reserved).
    pub fn reserve_seen(&mut self, alloc: Global, user: &str, more: usize) -> Result<(), AllocError>
        ensures contents { summary_in self.new ≡ summary_in self.old }
        ensures add_room { self.new.add_room ≡ self.old.add_room }
        ensures expunge_room { self.new.expunge_room ≡ self.old.expunge_room }
        ensures ok { OnOk result (more ≤ own_room self.new.own user.now) }
    {
        reserve_own(&mut self.own, alloc, user, more)
    }
}

impl Mailbox {
    /// Whether the user's own `\Seen` of the UID is set.
    pub(crate) fn seen_of(&self, user: &str, uid: u32) -> bool
        ensures { result ≡ latest_seen (latest uid (own_at (summary_in self.now).own user.now)) }
    {
        match self.own.get(user) {
            Some(own) => own.is_seen(uid),
            None => false,
        }
    }

    /// The messages, in the order of their UIDs.
    pub fn messages(&self) -> &[Message]
        ensures messages { result.now ≡ self.now.messages }
        ensures valid { IsKept (summary_in self.now) }
    {
        self.messages.as_slice()
    }

    /// The messages that were expunged, in the order in which they went.
    pub fn gone_messages(&self) -> &[GoneMessage]
        ensures gone { result.now ≡ self.now.gone }
        ensures valid { IsKept (summary_in self.now) }
    {
        self.gone.as_slice()
    }

    /// Of the user's own changes the place of the one that needs no more be kept once the user changes `\Seen` of this
    /// message: the last one of the message, unless it is the last before a shared event. The next own change, of
    /// whichever message, has `before` shared events before it.
    pub fn dropped_by(&self, user: &str, uid: u32, before: u64) -> Option<u64>
        ensures { result ≡ dropped_for uid before (own_at (summary_in self.now).own user.now) }
    {
        match self.own.get(user) {
            Some(own) => own.dropped_by(uid, before),
            None => None,
        }
    }

    /// The number of own changes of the user, kept or not.
    pub fn own_len(&self, user: &str) -> u64
        ensures few { result ≤ max_events }
        ensures events { result ≡ length (own_at (summary_in self.now).own user.now).befores }
    {
        match self.own.get(user) {
            Some(own) => own.len(),
            None => 0,
        }
    }

    /// The number of shared events.
    pub fn shared_len(&self) -> u64
        ensures events { result ≡ self.now.shared }
        ensures few { self.now.shared ≤ max_events }
    {
        self.shared
    }

    /// HIGHESTMODSEQ for the user (RFC 7162, section 3.1.2.1).
    pub fn highest(&self, user: &str) -> u64
        ensures number { result ≡ highest_of (summary_in self.now) user.now }
        ensures bounded { result ≤ max_number }
    {
        highest_after(self.shared_len(), self.own_len(user))
    }

    /// The number of messages that may be added, if there may be `max_messages` messages: the least of the
    /// messages, the UIDs and the shared events that are left.
    pub fn room(&self, max_messages: u64) -> u64
        ensures { result ≡ room_of max_messages (summary_in self.now) }
    {
        let messages = max_messages.saturating_sub(self.messages.len() as u64);
        let uids = (u32::MAX - self.next) as u64;
        let events = MAX_EVENTS - self.shared;
        messages.min(uids.min(events))
    }

    /// UIDNEXT (RFC 9051, section 2.3.1.1).
    pub fn next_uid(&self) -> u32
        ensures next { result ≡ self.now.next }
        ensures valid { IsKept (summary_in self.now) }
    {
        self.next
    }

    /// The number of messages.
    pub fn len(&self) -> usize
        ensures { result ≡ length self.now.messages }
    {
        self.messages.len()
    }

    /// The message with the UID, by a search that halves.
    pub fn find(&self, uid: u32) -> Option<&Message>
        ensures message { option_copied result ≡ message_at uid self.now.messages }
        ensures known { OnSome result (WasGiven self.now.next uid) }
        ensures there { OnSome result (is_there uid (summary_in self.now) ≡ true) }
        ensures valid { IsKept (summary_in self.now) }
    {
        match find_message(&self.messages, uid) {
            Some(place) => Some(&self.messages[place]),
            None => None,
        }
    }

    /// Whether a message has the UID, by a search that halves.
    pub fn contains(&self, uid: u32) -> bool
        ensures there { result ≡ is_there uid (summary_in self.now) }
        ensures valid { IsKept (summary_in self.now) }
        ensures known { IsTrue result → WasGiven self.now.next uid }
    {
        match find_message(&self.messages, uid) {
            Some(_) => true,
            None => false,
        }
    }

    /// The messages as the user has them.
    pub fn rows(&self, user: &str) -> Rows<'_>
        ensures rows { result ≡ rows_of (summary_in self.now) user.now }
        ensures valid { AreRowsInOrder self.now.next (highest_of (summary_in self.now) user.now) result }
    {
        Rows {
            messages: &self.messages,
            own: self.own.get(user),
            recent: &self.recent,
            totals: self.totals,
        }
    }

    /// The messages that went with a mod-sequence greater than `number` for the user, as VANISHED (EARLIER)
    /// tells them (RFC 7162, section 3.2.10), by a search that halves.
    pub fn gone_since(&self, user: &str, number: u64) -> GoneUids<'_>
        ensures gone { result ≡ gone_after_number number (gone_of (summary_in self.now) user.now) }
        ensures valid { AreGoneInOrder self.now.next (highest_of (summary_in self.now) user.now) result }
    {
        self.gone(user).since(number)
    }

    /// All messages that were expunged, with their mod-sequences for the user.
    pub fn gone(&self, user: &str) -> GoneUids<'_>
        ensures gone { result ≡ gone_of (summary_in self.now) user.now }
        ensures valid { AreGoneInOrder self.now.next (highest_of (summary_in self.now) user.now) result }
    {
        GoneUids {
            gone: &self.gone,
            first: 0,
            own: self.own.get(user),
        }
    }
}
