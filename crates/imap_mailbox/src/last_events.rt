//! Rows above a mod-sequence, found by the UIDs of last events.

ghost use Rattle.std.specs.Prelude.{◌≡◌, ◌≤◌, ◌<◌, ◌==◌, ◌&&◌, true, length, nat_le, nat_lt, slice_index_or};
ghost use Rattle.std.specs.Prelude.{IfSome};
ghost use Rattle.imap_mailbox.specs.declared.message.Message.{Message};
ghost use Rattle.imap_mailbox.specs.Lent.{row_uids};
ghost use Rattle.imap_mailbox.specs.Looked.{IsFirstOf};
ghost use Rattle.imap_mailbox.specs.Own.{no_own};
ghost use Rattle.imap_mailbox.specs.Recent.{IsRecent};
ghost use Rattle.imap_mailbox.specs.Rows.{Row, is_among};
ghost use Rattle.imap_mailbox.specs.Summary.{AreRising, latest, latest_number, row_in};

use crate::own::OwnSeen;
use crate::recent_events::RecentEvents;
use crate::rows::Rows;

/// The greatest number of events that are looked at.
const MAX_LOOKS: usize = 32;

/// The UIDs of the events from a place on. `None` if they are too many, or some were forgotten.
fn few_since(recent: &RecentEvents, place: u64) -> Option<&[u32]>
    ensures { IfSome result (λ uids. (m : Message) → IsRecent recent.now m → place ≤ m.place
        → is_among m.uid uids.now ≡ true) }
{
    let uids = recent.since(place)?;
    if uids.len() > MAX_LOOKS {
        return None;
    }
    Some(uids)
}

/// The UIDs of the last events, among which are those of all messages that are above `number` for a user without
/// own changes. `None` if they are too many, or some were forgotten.
pub(crate) fn last_uids(recent: &RecentEvents, number: u64) -> Option<&[u32]>
    ensures { IfSome result (λ uids. (m : Message) → IsRecent recent.now m → number < (row_in no_own m).number
        → is_among m.uid uids.now ≡ true) }
{
    few_since(recent, number.saturating_sub(1))
}

/// The UIDs of the last events, among which are those of all messages that are above `number` for a user with own
/// changes, but for messages whose last own change is above it. `None` if they are too many, or some were forgotten.
pub(crate) fn last_own_uids<'a>(
    recent: &'a RecentEvents,
    own: &OwnSeen,
    number: u64,
) -> Option<&'a [u32]>
    ensures { IfSome result (λ uids. (m : Message) → IsRecent recent.now m
        → latest_number (latest m.uid own.now.own) ≤ number → number < (row_in own.now.own m).number
        → is_among m.uid uids.now ≡ true) }
{
    few_since(recent, number.saturating_sub(1 + own.len()))
}

/// The place of the first message with one of the UIDs and above `number`, from `start` on and before `end`, or
/// `end`.
pub(crate) fn first_of_uids(
    rows: &Rows<'_>,
    uids: &[u32],
    start: usize,
    end: usize,
    number: u64,
) -> usize
    requires rising { AreRising (row_uids rows.now) }
    requires order { start ≤ end }
    requires within { end ≤ length rows.now }
    ensures { IsFirstOf (λ uid. is_among uid uids.now) number start end result rows.now }
{
    let mut first = end;
    for uid in uids {
        first = first_with(rows, *uid, start, first, number);
    }
    first
}

/// The same, of one UID.
fn first_with(rows: &Rows<'_>, uid: u32, start: usize, end: usize, number: u64) -> usize
    requires rising { AreRising (row_uids rows.now) }
    requires order { start ≤ end }
    requires within { end ≤ length rows.now }
    ensures { IsFirstOf (λ other. other == uid) number start end result rows.now }
{
    match rows.place_of(uid) {
        Some(place) => {
            if is_above_in(rows, place, start, end, number) {
                place
            } else {
                end
            }
        }
        None => end,
    }
}

/// Whether the place is one from `start` on and before `end`, and its message above `number`.
fn is_above_in(rows: &Rows<'_>, place: usize, start: usize, end: usize, number: u64) -> bool
    requires { place < length rows.now }
    ensures { (row : Row) → row ≡ slice_index_or rows.now place row
        → result ≡ (nat_le start place && (nat_lt place end && nat_lt number row.number)) }
{
    start <= place && (place < end && rows.is_above(place, number))
}
