//! Rows above a mod-sequence, by a walk.

ghost use Rattle.std.specs.Prelude.{◌≡◌, ℕ, ◌+◌, ◌<◌, ◌≤◌, length, map, nat_lt, true};
ghost use Rattle.imap_modseq.specs.Numbers.{max_events};
ghost use Rattle.imap_mailbox.specs.Above.{IsFirstAbove};
ghost use Rattle.imap_mailbox.specs.Late.{may_have};
ghost use Rattle.imap_mailbox.specs.Own.{no_own};
ghost use Rattle.imap_mailbox.specs.Summary.{latest, latest_number, row_in, ArePlacesBelow};

use crate::late::{LateUids, late_uids};
use crate::message::Message;
use crate::own::OwnSeen;
use crate::row::{own_row, plain_row};

/// The place of the first message from `start` on and before `end` that is above `number`, or `end`, for a user
/// without own changes.
pub(crate) fn first_plain_above(
    messages: &[Message],
    start: usize,
    end: usize,
    number: u64,
) -> usize
    requires order { start ≤ end }
    requires within { end ≤ length messages.now }
    requires places { ArePlacesBelow (max_events + 1) messages.now }
    ensures { IsFirstAbove number start end result (map (row_in no_own) messages.now) }
{
    for place in start..end {
        if number < plain_row(&messages[place]).number {
            return place;
        }
    }
    end
}

/// The place of the first message from `start` on and before `end` that is above `number`, or `end`, for a user
/// with own changes.
pub(crate) fn first_own_above(
    messages: &[Message],
    own: &OwnSeen,
    start: usize,
    end: usize,
    number: u64,
) -> usize
    requires order { start ≤ end }
    requires within { end ≤ length messages.now }
    requires places { ArePlacesBelow (max_events + 1) messages.now }
    ensures { IsFirstAbove number start end result (map (row_in own.now.own) messages.now) }
{
    let quiet = number.saturating_sub(1 + own.len());
    let late = late_uids(own, number);
    let mut near = 0;
    for place in start..end {
        if is_own_above(&messages[place], own, number, quiet, &late, &mut near) {
            return place;
        }
    }
    end
}

/// Whether the mod-sequence of the message is above `number`. A last shared event at a place below `quiet` isn't
/// above it, and no own change of a UID that isn't among the `late` ones. The look-up of others begins at `near`.
fn is_own_above(
    message: &Message,
    own: &OwnSeen,
    number: u64,
    quiet: u64,
    late: &LateUids,
    near: &mut usize,
) -> bool
    requires place { message.now.place ≤ max_events }
    requires quiet { 0 < quiet → quiet + length own.now.own.befores + 1 ≤ number }
    requires late { (uid : ℕ) → number < latest_number (latest uid own.now.own)
        → may_have late.now uid ≡ true }
    ensures { result ≡ nat_lt number (row_in own.now.own message.now).number }
{
    if message.place < quiet
        && !(late.may_have(message.uid) && own.is_later(message.uid, number, near))
    {
        return false;
    }
    number < own_row(message, own).number
}
