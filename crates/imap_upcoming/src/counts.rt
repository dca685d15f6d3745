//! What is counted of a mailbox once a batch is written.

ghost use Rattle.std.specs.Prelude.{◌≡◌, ◌≤◌, ◌+◌, length, min};
ghost use Rattle.imap_batch.specs.Written.{with_batch, MayWrite};
ghost use Rattle.imap_mailbox.specs.Held.{summary_in};
ghost use Rattle.imap_mailbox.specs.Own.{own_at};
ghost use Rattle.imap_modseq.specs.Numbers.{max_events};

use imap_batch::{BatchWrite, added_seen_count, flag_count, mark_seen_count};
use imap_mailbox::Mailbox;
use imap_modseq::MAX_EVENTS;

/// UIDNEXT (RFC 9051, section 2.3.1.1).
pub(crate) fn next_uid_after(mailbox: &Mailbox, write: &BatchWrite) -> u32
    requires { MayWrite write.now (summary_in mailbox.now) }
    ensures { result ≡ (with_batch write.now.batch (summary_in mailbox.now)).next }
{
    let next = mailbox.next_uid();
    let added = write.batch.added.as_slice().len() as u32;
    next + added
}

/// The number of messages.
pub(crate) fn len_after(mailbox: &Mailbox, write: &BatchWrite) -> usize
    requires { MayWrite write.now (summary_in mailbox.now) }
    ensures { result ≡ length (with_batch write.now.batch (summary_in mailbox.now)).messages }
{
    let count = mailbox.messages().len();
    let added = write.batch.added.as_slice().len();
    let expunged = write.batch.expunged.as_slice().len();
    count + added - expunged
}

/// The number of shared events.
pub(crate) fn shared_after(mailbox: &Mailbox, write: &BatchWrite) -> u64
    requires { MayWrite write.now (summary_in mailbox.now) }
    ensures shared { result ≡ (with_batch write.now.batch (summary_in mailbox.now)).shared }
    ensures few { result ≤ max_events }
{
    let shared = mailbox.shared_len();
    let added = write.batch.added.as_slice().len() as u64;
    let flags = flag_count(write.batch.marks.as_slice()) as u64;
    let expunged = write.batch.expunged.as_slice().len() as u64;
    shared + added + flags + expunged
}

/// The number of own changes of the batch's user, kept or not.
pub(crate) fn own_after(mailbox: &Mailbox, write: &BatchWrite) -> u64
    requires { MayWrite write.now (summary_in mailbox.now) }
    ensures own { let batch = write.now.batch in
        result ≡ length (own_at (with_batch batch (summary_in mailbox.now)).own batch.user).befores }
    ensures few { result ≤ max_events }
{
    let own = mailbox.own_len(write.batch.user.as_str());
    let added = added_seen_count(write.batch.added.as_slice()) as u64;
    let marked = mark_seen_count(write.batch.marks.as_slice()) as u64;
    own.saturating_add(added + marked).min(MAX_EVENTS)
}
