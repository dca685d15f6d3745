//! What STATUS counts (RFC 9051, section 6.3.11).

ghost use Rattle.std.specs.Prelude.{◌≡◌, min, length, count_by};
ghost use Rattle.std.specs.List.{sum_by};
ghost use Rattle.imap_mailbox.specs.Status.{max_size};

use crate::message::Message;

/// The greatest size that STATUS says (RFC 9051, section 9, `number64`).
pub(crate) const MAX_SIZE: u64 = 9_223_372_036_854_775_807;

/// Returns the number of messages with `\Deleted`.
pub(crate) fn count_deleted(messages: &[Message]) -> usize
    ensures { result ≡ count_by (λ m. m.flags.deleted) messages.now }
{
    let mut count = 0;
    for message in messages {
        count += message.flags.deleted as usize;
    }
    count
}

/// Returns the number of octets of all messages, or [`MAX_SIZE`] if there are more.
pub(crate) fn sum_sizes(messages: &[Message]) -> u64
    ensures { result ≡ min max_size (sum_by (λ m. length m.octets) messages.now) }
{
    let mut size: u64 = 0;
    for message in messages {
        let len = message.octets.as_slice().len() as u64;
        size = size.saturating_add(len).min(MAX_SIZE);
    }
    size
}
