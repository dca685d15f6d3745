//! Messages as a mailbox keeps them.

ghost use Rattle.std.specs.Prelude.{◌≡◌, ◌≤◌, ◌==◌, not, map, length, nat_lt, vec_len, IfSome, Some};
ghost use Rattle.std.specs.List.{prefix_len};
ghost use Rattle.std.specs.Vec.{vec_capacity};
ghost use Rattle.imap_mailbox.specs.Summary.{AreRising, uids_in, without, flags_in};
ghost use Rattle.imap_mailbox.specs.Lent.{place_in, IsPlaceFor};

use crate::flags::SharedFlags;
use imap_syntax::{DateTime, Octets};

/// The number of messages that a look-up from a place on looks at before it searches.
const NEAR_MESSAGES: usize = 32;

/// A message that is there.
pub struct Message {
    pub uid: u32,
    pub date: DateTime,
    pub octets: Octets,
    pub flags: SharedFlags,
    /// The place of its last shared event among those of the mailbox, from 0.
    pub place: u64,
}

// Not derived: a derived one is proved anew in each crate that lets go of one.
impl Drop for Message {
    fn drop(self) {
        let Message {
            uid: _,
            date: _,
            octets: _,
            flags: _,
            place: _,
        } = self;
    }
}

/// A message that was expunged.
#[derive(Clone, Copy)]
pub struct GoneMessage {
    pub uid: u32,
    /// The place of the event by which it went.
    pub place: u64,
}

/// Returns the number of messages with a lower UID, by a search that halves.
pub(crate) fn count_lower(messages: &[Message], uid: u32) -> usize
    requires { AreRising (uids_in messages.now) }
    ensures count { result ≡ prefix_len (λ m. nat_lt m.uid uid) messages.now }
    ensures within { result ≤ length messages.now }
    ensures point { IsPlaceFor uid messages.now result }
{
    messages.partition_point(
        |message: &Message| -> bool
            ensures { result ≡ nat_lt message.now.uid uid }
        { message.uid < uid },
    )
}

/// Returns the place of the message with the UID, by a search that halves.
pub(crate) fn find_message(messages: &[Message], uid: u32) -> Option<usize>
    requires { AreRising (uids_in messages.now) }
    ensures { result ≡ place_in uid (uids_in messages.now) }
{
    let place = count_lower(messages, uid);
    if place < messages.len() && messages[place].uid == uid {
        Some(place)
    } else {
        None
    }
}

/// As [`find_message`], by a look at few messages from `near` on before the search. Where UIDs rise, and
/// `near` is the place that was found last, all look-ups are about one pass of the messages and the UIDs.
pub(crate) fn find_message_near(messages: &[Message], uid: u32, near: usize) -> Option<usize>
    requires { AreRising (uids_in messages.now) }
    ensures { result ≡ place_in uid (uids_in messages.now) }
{
    match find_from(messages, uid, near) {
        Some(place) => Some(place),
        None => find_message(messages, uid),
    }
}

/// Returns the place of the message with the UID if it is one of the first [`NEAR_MESSAGES`] from `near` on.
fn find_from(messages: &[Message], uid: u32, near: usize) -> Option<usize>
    requires { AreRising (uids_in messages.now) }
    ensures { IfSome result (λ place. place_in uid (uids_in messages.now) ≡ Some place) }
{
    let end = near.saturating_add(NEAR_MESSAGES).min(messages.len());
    for place in near..end {
        if messages[place].uid == uid {
            return Some(place);
        }
    }
    None
}

fn put_flags(message: &mut Message, flags: SharedFlags, place: u64)
    ensures { message.new ≡ record {
      uid = message.old.uid;
      date = message.old.date;
      octets = message.old.octets;
      flags = flags;
      place = place;
    } }
{
    message.flags = flags;
    message.place = place;
}

/// Sets the flags of the message with the UID, by the shared event at `place`.
pub(crate) fn set_message_flags(
    messages: &mut Vec<Message>,
    uid: u32,
    flags: SharedFlags,
    place: u64,
)
    requires { AreRising (uids_in messages.old.items) }
    ensures items { messages.new.items ≡ map (flags_in uid flags place) messages.old.items }
    ensures len { vec_len messages.new ≡ vec_len messages.old }
    ensures capacity { vec_capacity messages.new ≡ vec_capacity messages.old }
{
    match find_message(messages, uid) {
        Some(found) => put_flags(&mut messages[found], flags, place),
        None => {}
    }
}

/// Removes the message with the UID.
pub(crate) fn remove_message(messages: &mut Vec<Message>, uid: u32)
    ensures items { messages.new.items ≡ without uid messages.old.items }
    ensures len { vec_len messages.new ≤ vec_len messages.old }
    ensures capacity { vec_capacity messages.new ≡ vec_capacity messages.old }
{
    messages.retain(
        |message: &Message| -> bool
            ensures { result ≡ not (message.now.uid == uid) }
        { message.uid != uid },
    );
}
