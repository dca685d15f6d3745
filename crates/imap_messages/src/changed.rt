//! From one message that changed to the next (RFC 7162, section 3.1.4.1).

ghost use Rattle.std.specs.Prelude.{◌≡◌, ◌<◌, ◌≤◌, true, length};
ghost use Rattle.imap_mailbox.specs.Lent.{row_uids};
ghost use Rattle.imap_mailbox.specs.Summary.{AreRising};
ghost use Rattle.imap_messages.specs.Changed.{AreLeft, AreSkipped, AreThere, NoneRefuses};

use imap_mailbox::Rows;
use imap_targets::KnownList;

/// Whether known messages from the index `start` on and before `end` may be skipped that haven't changed after
/// `since`. One that is gone may refuse the command if messages are named by their numbers. Where the answer is no,
/// each is looked at, which changes nothing but the time.
pub(crate) fn may_skip(
    by_uid: bool,
    since: Option<u64>,
    known: &KnownList,
    start: usize,
    end: usize,
    rows: &Rows<'_>,
) -> bool
    requires order { start ≤ end }
    requires within { end ≤ length known.now.list }
    ensures { result ≡ true → NoneRefuses by_uid rows.now known.now.list start end }
{
    since.is_some() && (by_uid || are_there(known, start, end, rows))
}

/// Returns an index from `index` on, before which no known message is to be read: the first one that changed after
/// `since`, if `skips`.
pub(crate) fn next_to_read(
    skips: bool,
    since: Option<u64>,
    known: &KnownList,
    index: usize,
    rows: &Rows<'_>,
) -> usize
    requires known { index < length known.now.list }
    requires rows { AreRising (row_uids rows.now) }
    ensures { AreSkipped skips since rows.now known.now.list index result }
{
    match since {
        Some(since) if skips => next_changed(known, index, rows, since),
        _ => index,
    }
}

/// Whether all known messages from the index `start` on and before `end` were found, one row after another. If so,
/// they are there.
fn are_there(known: &KnownList, start: usize, end: usize, rows: &Rows<'_>) -> bool
    requires order { start ≤ end }
    requires within { end ≤ length known.now.list }
    ensures { result ≡ true → AreThere rows.now known.now.list start end }
{
    if start == end {
        return true;
    }
    let first = rows.place_from(known.uid(start));
    for index in start..end {
        let place = first.saturating_add(index - start);
        if place >= rows.len() || rows.uid(place) != known.uid(index) {
            return false;
        }
    }
    true
}

/// Returns the index of the first known message, from `index` on, that may have changed after `since`, or the number
/// of known messages. Looks at the rows between, and at no known message.
fn next_changed(known: &KnownList, index: usize, rows: &Rows<'_>, since: u64) -> usize
    requires known { index < length known.now.list }
    requires rows { AreRising (row_uids rows.now) }
    ensures { AreLeft since rows.now known.now.list index result }
{
    let count = known.len();
    let start = rows.place_from(known.uid(index));
    let place = rows.skip_unchanged(start, rows.len(), since);
    if place == rows.len() {
        return count;
    }
    known.place_from(rows.uid(place))
}
