//! The messages as a batch will leave them.

ghost use Rattle.std.specs.Prelude.{◌≡◌};
ghost use Rattle.imap_batch.specs.Written.{with_batch, MayWrite};
ghost use Rattle.imap_mailbox.specs.Held.{summary_in};
ghost use Rattle.imap_mailbox.specs.Summary.{rows_of};

use crate::counts::len_after;
use imap_batch::{BatchWrite, Planned};
use imap_mailbox::{KnownMessage, Mailbox};
use imap_session::{KnownList, RowCursor};
use std::alloc::{AllocError, Global};
use std::marker::Model;

/// A cursor over the messages as a batch will leave them to its user, which knows their number. Contracts see
/// those from the next one on.
#[derive(Drop)]
pub struct PlannedRows<'a> {
    rows: Planned<'a>,
    /// The number of messages from the next one on.
    len: usize,
}

impl<'a> Model for PlannedRows<'a> {
    ghost use Rattle.std.specs.Prelude.{◌≡◌, List, length};
    ghost use Rattle.std.specs.Coded.{coded_list};
    ghost use Rattle.imap_mailbox.specs.Lent.{row_code};
    ghost use Rattle.imap_mailbox.specs.Rows.{Row};

    ghost Value = { List Row };

    ghost coded = { coded_list row_code };

    ghost view = { λ c. c.rows };

    ghost invariant = { λ c. c.len ≡ length c.rows };
}

impl<'a> PlannedRows<'a> {
    /// Returns a cursor at the first message.
    pub(crate) fn new(mailbox: &'a Mailbox, write: &'a BatchWrite) -> PlannedRows<'a>
        requires { MayWrite write.now (summary_in mailbox.now) }
        ensures { let batch = write.now.batch in
            result ≡ rows_of (with_batch batch (summary_in mailbox.now)) batch.user }
    {
        PlannedRows {
            rows: Planned::new(mailbox, write),
            len: len_after(mailbox, write),
        }
    }
}

impl<'a> RowCursor for PlannedRows<'a> {
    ghost rest = { λ rows. rows };

    fn len(&self) -> usize {
        self.len
    }

    fn is_next(&self, uid: u32) -> bool {
        match self.rows.uid() {
            Some(next) => uid == next,
            None => false,
        }
    }

    fn skip_unchanged(&mut self, uid: u32, number: u64) -> bool {
        if !self.is_next(uid) {
            return false;
        }
        if self.rows.is_above(number) {
            return false;
        }
        self.skip();
        true
    }

    /// Messages before the first that the batch changes are as they are known if the last of them is known at
    /// its place: each of them is known, and the UIDs of both lists rise. If it isn't, half of them are tried.
    fn skip_known(&mut self, known: &KnownList, place: usize, number: u64) -> usize {
        let left = known.len().saturating_sub(place);
        let mut len = self.rows.untouched_len(number).min(left);
        while len > 0 {
            let last = known.uid(place + len - 1);
            if self.rows.skip_untouched(len, last, number) {
                self.len -= len;
                return len;
            }
            len /= 2;
        }
        0
    }

    fn uid(&self) -> u32 {
        match self.rows.uid() {
            Some(uid) => uid,
            None => unreachable!(),
        }
    }

    fn message(&self, alloc: Global) -> Result<KnownMessage, AllocError> {
        match self.rows.row() {
            Some(row) => KnownMessage::of_row(alloc, &row),
            None => unreachable!(),
        }
    }

    fn skip(&mut self) {
        if self.len > 0 {
            self.rows.skip();
            self.len -= 1;
        }
    }
}
