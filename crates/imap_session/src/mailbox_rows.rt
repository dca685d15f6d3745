//! The messages that are there.

ghost use Rattle.std.specs.Prelude.{◌≡◌, ◌+◌, ◌^◌, ◌<◌, ◌≤◌, ℕ, drop, length, IsTrue};
ghost use Rattle.imap_session.specs.ByUid.{AgreeByUid};
ghost use Rattle.imap_session.specs.Cursors.{AreFirst};

use crate::known_list::KnownList;
use crate::row_cursor::RowCursor;
use imap_mailbox::{KnownMessage, Rows};
use std::alloc::{AllocError, Global};
use std::marker::Model;

/// A cursor over the messages that are there. Contracts see those from the next one on.
#[derive(Drop)]
pub struct MailboxRows<'a> {
    rows: &'a Rows<'a>,
    place: usize,
}

impl<'a> Model for MailboxRows<'a> {
    ghost use Rattle.std.specs.Prelude.{List, drop};
    ghost use Rattle.std.specs.Coded.{coded_list};
    ghost use Rattle.imap_mailbox.specs.Rows.{Row};
    ghost use Rattle.imap_mailbox.specs.Lent.{row_code};

    ghost Value = { List Row };

    ghost coded = { coded_list row_code };

    ghost view = { λ c. drop c.place c.rows.now };
}

impl<'a> MailboxRows<'a> {
    /// Returns a cursor at the first message.
    pub fn new(rows: &'a Rows<'a>) -> MailboxRows<'a>
        ensures { result ≡ rows.now }
    {
        MailboxRows { rows, place: 0 }
    }
}

/// Whether the next `len` known messages, from `place` on, are the rows from `start` on. They are if the last of them
/// stands where it would then, as each row before it is known.
fn are_there(rows: &Rows<'_>, start: usize, known: &KnownList, place: usize, len: usize) -> bool
    requires some { 0 < len }
    requires few { place + len ≤ length known.now.list }
    requires fits { place + len < 2 ^ 64 }
    ensures within { IsTrue result → start + len ≤ length rows.now }
    ensures there { IsTrue result → (number : ℕ)
        → AgreeByUid number (drop place known.now.list) (drop start rows.now)
        → AreFirst len (drop place known.now.list) (drop start rows.now) }
{
    if rows.len().saturating_sub(start) < len {
        return false;
    }
    let last = known.uid(place + len - 1);
    let end = start + len - 1;
    last == rows.uid(end) && rows.place_from(last) == end
}

/// The number of known messages, from `place` on, that are found to be the rows from `start` on: all that are left, or
/// a half of them, or a half of that, down to none.
fn len_there(rows: &Rows<'_>, start: usize, known: &KnownList, place: usize) -> usize
    ensures within { 0 < result → start + result ≤ length rows.now }
    ensures there { (number : ℕ)
        → AgreeByUid number (drop place known.now.list) (drop start rows.now)
        → AreFirst result (drop place known.now.list) (drop start rows.now) }
{
    let mut len = known.len().saturating_sub(place);
    while len > 0 {
        if are_there(rows, start, known, place, len) {
            return len;
        }
        len /= 2;
    }
    0
}

impl<'a> RowCursor for MailboxRows<'a> {
    ghost rest = { λ rows. rows };

    fn len(&self) -> usize {
        self.rows.len().saturating_sub(self.place)
    }

    fn is_next(&self, uid: u32) -> bool {
        self.place < self.rows.len() && uid == self.rows.uid(self.place)
    }

    fn skip_unchanged(&mut self, uid: u32, number: u64) -> bool {
        if !self.is_next(uid) {
            return false;
        }
        if self.rows.is_above(self.place, number) {
            return false;
        }
        self.skip();
        true
    }

    /// Looks at the mod-sequences of known messages that are there, up to the first that changed. Of all known messages,
    /// if they are there; else of half of them, or fewer.
    fn skip_known(&mut self, known: &KnownList, place: usize, number: u64) -> usize {
        let len = len_there(self.rows, self.place, known, place);
        if len == 0 {
            return 0;
        }
        let next = self
            .rows
            .skip_unchanged(self.place, self.place.saturating_add(len), number);
        let run = next - self.place;
        self.place = next;
        run
    }

    fn uid(&self) -> u32 {
        self.rows.uid(self.place)
    }

    fn message(&self, alloc: Global) -> Result<KnownMessage, AllocError> {
        let row = self.rows.get(self.place);
        KnownMessage::of_row(alloc, &row)
    }

    fn skip(&mut self) {
        if self.place < self.rows.len() {
            self.place += 1;
        }
    }
}
