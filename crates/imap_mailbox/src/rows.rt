//! The messages of a mailbox as a user has them.

ghost use Rattle.std.specs.Prelude.{◌≡◌, ◌<◌, ◌≤◌, length, min, nat_lt, slice_index_or, IfSome};
ghost use Rattle.std.specs.List.{prefix_len};
ghost use Rattle.imap_mailbox.specs.Rows as specs;
ghost use Rattle.imap_mailbox.specs.Above.{IsFirstAbove};
ghost use Rattle.imap_mailbox.specs.Lent.{row_shown, place_in, row_uids};
ghost use Rattle.imap_mailbox.specs.Status.{deleted_in, unseen_in, size_in, max_size};

use crate::above::{first_own_above, first_plain_above};
use crate::flags::SharedFlags;
use crate::last_events::{first_of_uids, last_own_uids, last_uids};
use crate::late::last_changes;
use crate::message::{Message, count_lower, find_message};
use crate::own::OwnSeen;
use crate::recent_events::RecentEvents;
use crate::row::{Near, Row, own_is_above, own_row, own_row_near, plain_row};
use crate::totals::Totals;
use std::marker::Model;

/// A walk of fewer messages is quicker than a look at those of last events.
const FEW_MESSAGES: usize = 256;

/// The messages of a mailbox as a user has them, in the order of UIDs. They are lent from the mailbox.
#[derive(Drop)]
pub struct Rows<'a> {
    pub(crate) messages: &'a Vec<Message>,
    pub(crate) own: Option<&'a OwnSeen>,
    pub(crate) recent: &'a RecentEvents,
    pub(crate) totals: Totals,
}

impl<'a> Model for Rows<'a> {
    ghost use Rattle.std.specs.Prelude.{List, map};
    ghost use Rattle.std.specs.Coded.{coded_list};
    ghost use Rattle.imap_mailbox.specs.Rows.{Row};
    ghost use Rattle.imap_mailbox.specs.Summary.{row_in};
    ghost use Rattle.std.specs.Prelude.{option_copied};
    ghost use Rattle.imap_mailbox.specs.Counted.{IsCounted};
    ghost use Rattle.imap_mailbox.specs.Lent.{row_code, own_lent, IsLent};
    ghost use Rattle.imap_mailbox.specs.Recent.{AreRecent};
    ghost use Rattle.imap_mailbox.specs.Totals.{AreTotals};

    ghost Value = { List Row };

    ghost coded = { coded_list row_code };

    ghost view = { λ r. map (row_in (own_lent r.own)) r.messages.now.items };

    ghost invariant = { λ r. IsLent r.messages.now.items
        × IsCounted r.messages.now.items (option_copied r.own)
        × AreRecent r.recent.now r.messages.now.items × AreTotals r.messages.now.items r.totals };
}

impl<'a> Rows<'a> {
    /// The number of messages.
    pub fn len(&self) -> usize
        ensures { result ≡ length self.now }
    {
        self.messages.len()
    }

    /// The message at `place`, from 0: one less than its message sequence number.
    pub fn get(&self, place: usize) -> Row<'a>
        requires { place < length self.now }
        ensures { row_shown result ≡ slice_index_or self.now place (row_shown result) }
    {
        let message = &self.messages[place];
        match self.own {
            Some(own) => own_row(message, own),
            None => plain_row(message),
        }
    }

    /// The message at `place`, quick where rows are taken one after another.
    #[inline(always)]
    pub fn get_near(&self, place: usize, near: &mut Near) -> Row<'a>
        requires { place < length self.now }
        ensures { row_shown result ≡ slice_index_or self.now place (row_shown result) }
    {
        let message = &self.messages[place];
        match self.own {
            Some(own) => own_row_near(message, own, near),
            None => plain_row(message),
        }
    }

    /// The UID of the message at `place`.
    pub fn uid(&self, place: usize) -> u32
        requires { place < length self.now }
        ensures { (row : specs.Row) → row ≡ slice_index_or self.now place row → result ≡ row.uid }
    {
        self.messages[place].uid
    }

    /// The flags that all users share of the message at `place`, without a look-up of the user's own changes.
    pub fn flags(&self, place: usize) -> &'a SharedFlags
        requires { place < length self.now }
        ensures { (row : specs.Row) → row ≡ slice_index_or self.now place row → result.now ≡ row.flags }
    {
        &self.messages[place].flags
    }

    /// Whether the mod-sequence of the message at `place` is above `number`. It takes no look-up of the
    /// message's own changes if no event of the message can be above `number`.
    pub fn is_above(&self, place: usize, number: u64) -> bool
        requires { place < length self.now }
        ensures { (row : specs.Row) → row ≡ slice_index_or self.now place row
            → result ≡ nat_lt number row.number }
    {
        let message = &self.messages[place];
        match self.own {
            Some(own) => own_is_above(message, own, number),
            None => number < plain_row(message).number,
        }
    }

    /// The place of the first message from `start` on and before `end` whose mod-sequence is above `number`, or
    /// `end` if there is none.
    pub fn skip_unchanged(&self, start: usize, end: usize, number: u64) -> usize
        requires order { start ≤ end }
        requires within { end ≤ length self.now }
        ensures { IsFirstAbove number start end result self.now }
    {
        if end - start < FEW_MESSAGES {
            return self.first_by_walk(start, end, number);
        }
        match self.first_by_events(start, end, number) {
            Some(place) => place,
            None => self.first_by_walk(start, end, number),
        }
    }

    /// The same, by a look at each message.
    fn first_by_walk(&self, start: usize, end: usize, number: u64) -> usize
        requires order { start ≤ end }
        requires within { end ≤ length self.now }
        ensures { IsFirstAbove number start end result self.now }
    {
        match self.own {
            Some(own) => first_own_above(self.messages, own, start, end, number),
            None => first_plain_above(self.messages, start, end, number),
        }
    }

    /// The same, by a look at the messages of last events. `None` if too many of these may be above `number`,
    /// or if some of them were forgotten.
    fn first_by_events(&self, start: usize, end: usize, number: u64) -> Option<usize>
        requires order { start ≤ end }
        requires within { end ≤ length self.now }
        ensures { IfSome result (λ place. IsFirstAbove number start end place self.now) }
    {
        match self.own {
            Some(own) => {
                let changes = last_changes(own, number)?;
                let uids = last_own_uids(self.recent, own, number)?;
                let first = first_of_uids(self, uids, start, end, number);
                Some(first_of_uids(self, changes, start, first, number))
            }
            None => {
                let uids = last_uids(self.recent, number)?;
                Some(first_of_uids(self, uids, start, end, number))
            }
        }
    }

    /// The number of messages with a lower UID, by a search that halves. It is the place of the first message
    /// with this UID or a greater one.
    pub fn place_from(&self, uid: u32) -> usize
        ensures place { result ≡ prefix_len (λ row. nat_lt row.uid uid) self.now }
        ensures within { result ≤ length self.now }
    {
        count_lower(self.messages, uid)
    }

    /// The place of the message with the UID, by a search that halves.
    pub fn place_of(&self, uid: u32) -> Option<usize>
        ensures { result ≡ place_in uid (row_uids self.now) }
    {
        find_message(self.messages, uid)
    }

    /// The number of messages with `\Deleted`, which is kept.
    pub fn deleted_len(&self) -> usize
        ensures { result ≡ deleted_in self.now }
    {
        self.totals.deleted
    }

    /// The number of messages without the user's `\Seen`, from the number of seen ones that is kept.
    pub fn unseen_len(&self) -> usize
        ensures { result ≡ unseen_in self.now }
    {
        match self.own {
            Some(own) => self.messages.len() - own.seen_len(),
            None => self.messages.len(),
        }
    }

    /// The number of octets of all messages, which is kept, or 2^63 - 1 if there are more.
    pub fn size(&self) -> u64
        ensures { result ≡ min max_size (size_in self.now) }
    {
        self.totals.size
    }
}
