//! A cursor over the messages as a change will leave them.

use crate::planned_rows::PlannedRows;
use imap_mailbox::KnownMessage;
use imap_session::{KnownList, MailboxRows, RowCursor};
use std::alloc::{AllocError, Global};

/// The messages as a change will leave them, one after another.
#[derive(Drop)]
pub enum UpcomingRows<'a> {
    /// They stay as they are.
    There(MailboxRows<'a>),
    /// A batch is written.
    Planned(PlannedRows<'a>),
}

impl<'a> RowCursor for UpcomingRows<'a> {
    ghost use Rattle.imap_upcoming.specs.Left.{rows_left};

    ghost rest = { rows_left };

    fn len(&self) -> usize {
        match self {
            UpcomingRows::There(rows) => rows.len(),
            UpcomingRows::Planned(rows) => rows.len(),
        }
    }

    fn is_next(&self, uid: u32) -> bool {
        match self {
            UpcomingRows::There(rows) => rows.is_next(uid),
            UpcomingRows::Planned(rows) => rows.is_next(uid),
        }
    }

    fn skip_unchanged(&mut self, uid: u32, number: u64) -> bool {
        match self {
            UpcomingRows::There(rows) => rows.skip_unchanged(uid, number),
            UpcomingRows::Planned(rows) => rows.skip_unchanged(uid, number),
        }
    }

    fn skip_known(&mut self, known: &KnownList, place: usize, number: u64) -> usize {
        match self {
            UpcomingRows::There(rows) => rows.skip_known(known, place, number),
            UpcomingRows::Planned(rows) => rows.skip_known(known, place, number),
        }
    }

    fn uid(&self) -> u32 {
        match self {
            UpcomingRows::There(rows) => rows.uid(),
            UpcomingRows::Planned(rows) => rows.uid(),
        }
    }

    fn message(&self, alloc: Global) -> Result<KnownMessage, AllocError> {
        match self {
            UpcomingRows::There(rows) => rows.message(alloc),
            UpcomingRows::Planned(rows) => rows.message(alloc),
        }
    }

    fn skip(&mut self) {
        match self {
            UpcomingRows::There(rows) => rows.skip(),
            UpcomingRows::Planned(rows) => rows.skip(),
        }
    }
}
