//! A message as a user has it.

ghost use Rattle.std.specs.Prelude.{◌≡◌, ◌≤◌, nat_lt};
ghost use Rattle.imap_modseq.specs.Numbers.{max_events};
ghost use Rattle.imap_mailbox.specs.Own.{no_own};
ghost use Rattle.imap_mailbox.specs.Summary.{row_in};
ghost use Rattle.imap_mailbox.specs.Lent.{row_shown};

use crate::flags::SharedFlags;
use crate::message::Message;
use crate::own::OwnSeen;
use imap_modseq::number_after;
use imap_syntax::{DateTime, Octets};

/// A message as a user has it, lent from the mailbox.
#[derive(Drop)]
pub struct Row<'a> {
    pub uid: u32,
    pub date: DateTime,
    /// The user's own `\Seen`; after the date's last octets, so that a row has no gap to fill.
    pub seen: bool,
    pub octets: &'a Octets,
    pub flags: &'a SharedFlags,
    /// The mod-sequence (RFC 7162, section 3.1).
    pub number: u64,
}

/// The message for a user without own changes.
#[inline(always)]
pub(crate) fn plain_row<'a>(message: &'a Message) -> Row<'a>
    requires { message.now.place ≤ max_events }
    ensures { row_shown result ≡ row_in no_own message.now }
{
    Row {
        uid: message.uid,
        date: message.date,
        octets: &message.octets,
        flags: &message.flags,
        seen: false,
        number: number_after(message.place, 0),
    }
}

/// The message for a user with own changes.
pub(crate) fn own_row<'a>(message: &'a Message, own: &OwnSeen) -> Row<'a>
    requires { message.now.place ≤ max_events }
    ensures { row_shown result ≡ row_in own.now.own message.now }
{
    let (latest, seen) = own.latest(message.uid).unwrap_or((0, false));
    let shared = number_after(message.place, own.count_before(message.place));
    Row {
        uid: message.uid,
        date: message.date,
        octets: &message.octets,
        flags: &message.flags,
        seen,
        number: shared.max(latest),
    }
}

/// The places at which look-ups of a user's own changes ended, at which those of the next message begin. Rows are
/// right whatever it says; it makes a walk over them quick.
#[derive(Clone, Copy)]
pub struct Near {
    latest: usize,
    changes: usize,
}

impl Near {
    /// The places for the first message.
    pub fn start() -> Near {
        Near {
            latest: 0,
            changes: 0,
        }
    }
}

/// The message for a user with own changes, found from where the last one was.
#[inline(always)]
pub(crate) fn own_row_near<'a>(message: &'a Message, own: &OwnSeen, near: &mut Near) -> Row<'a>
    requires { message.now.place ≤ max_events }
    ensures { row_shown result ≡ row_in own.now.own message.now }
{
    let (latest, seen) = own
        .latest_near(message.uid, &mut near.latest)
        .unwrap_or((0, false));
    let before = own.count_before_near(message.place, &mut near.changes);
    let shared = number_after(message.place, before);
    Row {
        uid: message.uid,
        date: message.date,
        octets: &message.octets,
        flags: &message.flags,
        seen,
        number: shared.max(latest),
    }
}

/// Whether the mod-sequence of the message is above `number`. Its own changes are looked up only if the last
/// own change of the user, or the last shared event of the message, may be above `number`.
pub(crate) fn own_is_above(message: &Message, own: &OwnSeen, number: u64) -> bool
    requires { message.now.place ≤ max_events }
    ensures { result ≡ nat_lt number (row_in own.now.own message.now).number }
{
    if own.last_number() <= number && number_after(message.place, own.len()) <= number {
        return false;
    }
    number < own_row(message, own).number
}
