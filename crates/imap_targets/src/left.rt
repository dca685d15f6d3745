//! The events that a mailbox has left.

ghost use Rattle.std.specs.Prelude.{◌≡◌, ◌≤◌};
ghost use Rattle.imap_modseq.specs.Numbers.{max_events};
ghost use Rattle.imap_targets.specs.Left as specs;

use imap_modseq::MAX_EVENTS;
use imap_view::Readable;

/// The number of shared events that the mailbox may still have.
pub fn events_left(mailbox: &Readable<'_>) -> u64
    requires { mailbox.now.own ≤ max_events }
    ensures { result ≡ specs.events_left mailbox.now }
{
    let shared = mailbox.highest.saturating_sub(1 + mailbox.own);
    MAX_EVENTS.saturating_sub(shared)
}

/// Whether the mailbox has fewer than `count` shared events left.
pub fn lacks_events(mailbox: &Readable<'_>, count: u64) -> bool
    requires { mailbox.now.own ≤ max_events }
    ensures { result ≡ specs.lacks_events mailbox.now count }
{
    events_left(mailbox) < count
}
