//! The messages as a change will leave them.

ghost use Rattle.std.specs.Prelude.{◌≡◌};
ghost use Rattle.imap_batch.specs.Written.{with_batch, MayWrite};
ghost use Rattle.imap_mailbox.specs.Held.{summary_in};
ghost use Rattle.imap_mailbox.specs.Summary.{rows_of};
ghost use Rattle.imap_upcoming.specs.Left.{rows_left};

use crate::planned_rows::PlannedRows;
use crate::source::Source;
use crate::upcoming_rows::UpcomingRows;
use imap_batch::BatchWrite;
use imap_mailbox::Mailbox;
use imap_session::MailboxRows;
use std::marker::Model;

/// The messages of a mailbox as a change will leave them to a user, in the order of UIDs. Contracts see the
/// rows.
#[derive(Drop)]
pub struct UpcomingMessages<'a> {
    source: Source<'a>,
}

impl<'a> Model for UpcomingMessages<'a> {
    ghost use Rattle.std.specs.Prelude.{List};
    ghost use Rattle.std.specs.Coded.{coded_list};
    ghost use Rattle.imap_mailbox.specs.Lent.{row_code};
    ghost use Rattle.imap_mailbox.specs.Rows.{Row};
    ghost use Rattle.imap_upcoming.specs.Sources.{rows_in, MayPlan};

    ghost Value = { List Row };

    ghost coded = { coded_list row_code };

    ghost view = { λ messages. rows_in messages.source };

    ghost invariant = { λ messages. MayPlan messages.source };
}

impl<'a> UpcomingMessages<'a> {
    /// The messages of a mailbox as they are, for a user.
    pub(crate) fn there(mailbox: &'a Mailbox, user: &str) -> UpcomingMessages<'a>
        ensures { result ≡ rows_of (summary_in mailbox.now) user.now }
    {
        UpcomingMessages {
            source: Source::There(mailbox.rows(user)),
        }
    }

    /// The messages of a mailbox as a batch will leave them to its user.
    pub(crate) fn planned(mailbox: &'a Mailbox, write: &'a BatchWrite) -> UpcomingMessages<'a>
        requires { MayWrite write.now (summary_in mailbox.now) }
        ensures { let batch = write.now.batch in
            result ≡ rows_of (with_batch batch (summary_in mailbox.now)) batch.user }
    {
        UpcomingMessages {
            source: Source::Planned(mailbox, write),
        }
    }

    /// Returns a cursor at the first message.
    pub fn cursor(&self) -> UpcomingRows<'_>
        ensures { rows_left result ≡ self.now }
    {
        match &self.source {
            Source::There(rows) => UpcomingRows::There(MailboxRows::new(rows)),
            Source::Planned(mailbox, write) => {
                UpcomingRows::Planned(PlannedRows::new(mailbox, write))
            }
        }
    }
}
