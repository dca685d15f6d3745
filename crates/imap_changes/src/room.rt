//! What the mailboxes have left for copies.

ghost use Rattle.std.specs.Prelude.{◌≡◌, ◌≤◌, length};
ghost use Rattle.imap_changes.specs.Transfer as specs;
ghost use Rattle.imap_modseq.specs.Numbers.{max_events};
ghost use Rattle.imap_view.specs.Seen.{shown};

use imap_targets::lacks_events;
use imap_view::{Readable, Seen};

/// Whether the target has no room for `count` messages, as far as the user may know.
pub(crate) fn lacks_room(target: &Seen<'_>, count: usize) -> bool
    ensures { result ≡ specs.lacks_room (shown target.now) count }
{
    match target.room() {
        Some(room) => room < count as u64,
        None => 0 < count,
    }
}

/// Whether the source has no event left for one of the messages. A move within it has two for each.
pub(crate) fn lacks_move_events(source: &Readable<'_>, within: bool, uids: &[u32]) -> bool
    requires { source.now.own ≤ max_events }
    ensures { result ≡ specs.lacks_move_events source.now within (length uids.now) }
{
    lacks_events(source, source_events(within, uids))
}

fn source_events(within: bool, uids: &[u32]) -> u64
    ensures { result ≡ specs.source_events within (length uids.now) }
{
    let count = uids.len() as u64;
    if within { count + count } else { count }
}
