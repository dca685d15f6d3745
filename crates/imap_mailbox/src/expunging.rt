//! Several messages that are expunged at once.

ghost use Rattle.std.specs.Prelude.{◌≡◌, ℕ, ◌+◌, ◌<◌, ◌≤◌, List, ◌∷◌, ◌++◌, length, get_or, vec_len};
ghost use Rattle.std.specs.Prelude.{true, false, not};
ghost use Rattle.std.specs.Vec.{vec_capacity};
ghost use Rattle.imap_modseq.specs.Numbers.{max_events};
ghost use Rattle.imap_mailbox.specs.Rows.{is_among};
ghost use Rattle.imap_mailbox.specs.Summary.{AreRising, uids_in};
ghost use Rattle.imap_mailbox.specs.Expunging.{without_all, uids_there, gone_at};

use crate::message::{GoneMessage, Message, find_message_near};
use std::marker::Model;

/// UIDs, each greater than the one before.
#[derive(Drop)]
pub(crate) struct Rising<'a> {
    pub uids: &'a [u32],
}

impl<'a> Model for Rising<'a> {
    ghost use Rattle.std.specs.Prelude.{ℕ, List};
    ghost use Rattle.imap_mailbox.specs.Summary.{AreRising};

    ghost Value = { List ℕ };

    ghost view = { λ r. r.uids.now };

    ghost invariant = { λ r. AreRising r.uids.now };
}

impl<'a> Rising<'a> {
    /// Whether the UID is one of them. That is known at once if it stands at `near`, or lies between the one
    /// before `near` and the one there. Else it takes a search that halves. Sets `near` to the place of the
    /// first greater one.
    fn contains_near(&self, uid: u32, near: &mut usize) -> bool
        ensures { result ≡ is_among uid self.now }
    {
        let place = *near;
        if self.is_at(place, uid) {
            *near = place.saturating_add(1);
            return true;
        }
        if self.is_between(place, uid) {
            return false;
        }
        match self.uids.binary_search(&uid) {
            Ok(place) => {
                *near = place.saturating_add(1);
                true
            }
            Err(place) => {
                *near = place;
                false
            }
        }
    }

    /// Whether the UID stands at `place`.
    fn is_at(&self, place: usize, uid: u32) -> bool
        ensures { result ≡ true → is_among uid self.now ≡ true }
    {
        place < self.uids.len() && self.uids[place] == uid
    }

    /// Whether the UID lies between the one before `place` and the one there.
    fn is_between(&self, place: usize, uid: u32) -> bool
        ensures { result ≡ true → is_among uid self.now ≡ false }
    {
        place <= self.uids.len() && self.ends_below(place, uid) && self.goes_on_above(place, uid)
    }

    /// Whether those before `place` are lower than the UID.
    fn ends_below(&self, place: usize, uid: u32) -> bool
        requires { place ≤ length self.now }
        ensures { result ≡ true → (k : ℕ) → k < place → get_or self.now k 0 < uid }
    {
        place == 0 || self.uids[place - 1] < uid
    }

    /// Whether those from `place` on are greater than the UID.
    fn goes_on_above(&self, place: usize, uid: u32) -> bool
        requires { place ≤ length self.now }
        ensures { result ≡ true → (k : ℕ) → place ≤ k → k < length self.now → uid < get_or self.now k 0 }
    {
        place == self.uids.len() || uid < self.uids[place]
    }
}

/// Removes the messages with these UIDs, in one pass of the messages and the UIDs.
pub(crate) fn remove_messages(messages: &mut Vec<Message>, uids: &Rising<'_>)
    ensures items { messages.new.items ≡ without_all uids.now messages.old.items }
    ensures len { vec_len messages.new ≤ vec_len messages.old }
    ensures capacity { vec_capacity messages.new ≡ vec_capacity messages.old }
{
    let mut near = 0;
    messages.retain(
        |message: &Message| -> bool
            ensures kept { result ≡ not (is_among message.now.uid uids.entry.now) }
            ensures uids { uids.exit.now ≡ uids.entry.now }
        { !uids.contains_near(message.uid, &mut near) },
    );
}

/// Appends the UID to `gone`, by the event at `place`, if a message has it. Returns the place of the next
/// event, and sets `near` to the place of the message.
fn push_if_there(
    gone: &mut Vec<GoneMessage>,
    messages: &[Message],
    uid: u32,
    place: u64,
    near: &mut usize,
) -> u64
    requires messages { AreRising (uids_in messages.now) }
    requires room { vec_len gone.old + 1 ≤ vec_capacity gone.old }
    requires few { place + 1 ≤ max_events }
    ensures items { (uids : List ℕ) → gone.new.items ++ gone_at result (uids_there uids messages.now)
        ≡ gone.old.items ++ gone_at place (uids_there (uid ∷ uids) messages.now) }
    ensures next { (uids : List ℕ) → result + length (uids_there uids messages.now)
        ≡ place + length (uids_there (uid ∷ uids) messages.now) }
    ensures most { result ≤ place + 1 }
    ensures len { vec_len gone.new ≤ vec_len gone.old + 1 }
    ensures capacity { vec_capacity gone.new ≡ vec_capacity gone.old }
{
    match find_message_near(messages, uid, *near) {
        Some(found) => {
            *near = found;
            gone.push_reserved(GoneMessage { uid, place });
            place + 1
        }
        None => place,
    }
}

/// Appends to `gone` those of `uids` that messages have, by the events from `place` on, in room that is
/// there. Returns the place of the next event.
pub(crate) fn push_gone(
    gone: &mut Vec<GoneMessage>,
    messages: &[Message],
    uids: &[u32],
    place: u64,
) -> u64
    requires messages { AreRising (uids_in messages.now) }
    requires room { vec_len gone.old + length uids.now ≤ vec_capacity gone.old }
    requires few { place + length uids.now ≤ max_events }
    ensures items { gone.new.items ≡ gone.old.items ++ gone_at place (uids_there uids.now messages.now) }
    ensures next { result ≡ place + length (uids_there uids.now messages.now) }
    ensures len { vec_len gone.new ≤ vec_len gone.old + length uids.now }
    ensures capacity { vec_capacity gone.new ≡ vec_capacity gone.old }
{
    let mut next = place;
    let mut near = 0;
    for uid in uids {
        next = push_if_there(gone, messages, *uid, next, &mut near);
    }
    next
}
