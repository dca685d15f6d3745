//! The last change of each UID, in the order of UIDs.

ghost use Rattle.std.specs.Prelude.{◌≡◌, ℕ, ◌+◌, ◌<◌, ◌≤◌, ◌==◌, ◌↔◌, true, nat_lt, length, vec_len, Some, IsTrue};
ghost use Rattle.std.specs.Prelude.{MatchResult, if◌then◌else◌, ◌&&◌, count_by};
ghost use Rattle.std.specs.Vec.{vec_capacity};
ghost use Rattle.imap_mailbox.specs.Rows.{is_among};
ghost use Rattle.imap_mailbox.specs.Summary.{AreRising, uids_in};
ghost use Rattle.imap_mailbox.specs.Latest.{last_uids, last_in, put_in, is_set, before_uid, IsAt, IsPlace, IsGap};

use crate::kept_change::KeptChange;
use crate::message::{Message, find_message};

/// Returns how many entries have a lower UID, by a search that halves.
fn place_of(table: &[KeptChange], uid: u32) -> usize
    requires { AreRising (last_uids table.now) }
    ensures place { result ≡ before_uid uid table.now }
    ensures within { result ≤ length table.now }
{
    table.partition_point(
        |last: &KeptChange| -> bool
            ensures { result ≡ nat_lt last.now.uid uid }
        { last.uid < uid },
    )
}

/// Whether the entry at `place` is that of the UID.
fn is_at(table: &[KeptChange], place: usize, uid: u32) -> bool
    ensures { IsTrue result ↔ IsAt uid table.now place }
{
    place < table.len() && table[place].uid == uid
}

/// Returns the place of the UID, or as an error the place that it would have.
fn find_last(table: &[KeptChange], uid: u32) -> Result<usize, usize>
    requires { AreRising (last_uids table.now) }
    ensures { MatchResult result (IsPlace uid table.now) (IsGap uid table.now) }
{
    let place = place_of(table, uid);
    if is_at(table, place, uid) {
        Ok(place)
    } else {
        Err(place)
    }
}

/// Returns the place of the UID as [`find_last`] does, at once if it is `near`.
pub(crate) fn find_near(table: &[KeptChange], uid: u32, near: usize) -> Result<usize, usize>
    requires { AreRising (last_uids table.now) }
    ensures { MatchResult result (IsPlace uid table.now) (IsGap uid table.now) }
{
    if !is_place(table, near, uid) {
        return find_last(table, uid);
    }
    if is_at(table, near, uid) {
        Ok(near)
    } else {
        Err(near)
    }
}

/// Whether the entries before `place`, and no others, have a lower UID.
fn is_place(table: &[KeptChange], place: usize, uid: u32) -> bool
    requires { AreRising (last_uids table.now) }
    ensures place { result ≡ true → place ≡ before_uid uid table.now }
    ensures within { result ≡ true → place ≤ length table.now }
{
    place <= table.len() && ends_below(table, place, uid) && goes_on_from(table, place, uid)
}

/// Whether the entry before `place` has a lower UID, if there is one.
fn ends_below(table: &[KeptChange], place: usize, uid: u32) -> bool
    requires rising { AreRising (last_uids table.now) }
    requires within { place ≤ length table.now }
    ensures { result ≡ true → place ≤ before_uid uid table.now }
{
    place == 0 || table[place - 1].uid < uid
}

/// Whether the entry at `place` has no lower UID, if there is one.
fn goes_on_from(table: &[KeptChange], place: usize, uid: u32) -> bool
    requires { place ≤ length table.now }
    ensures { result ≡ true → before_uid uid table.now ≤ place }
{
    place == table.len() || uid <= table[place].uid
}

/// Returns the last change of the UID.
pub(crate) fn last_of(table: &[KeptChange], uid: u32) -> Option<KeptChange>
    requires { AreRising (last_uids table.now) }
    ensures { result ≡ last_in uid table.now }
{
    match find_last(table, uid) {
        Ok(place) => Some(table[place]),
        Err(_) => None,
    }
}

/// As [`last_of`], at once if `near` is the place of the UID. The second is the place of the next UID.
pub(crate) fn last_near(table: &[KeptChange], uid: u32, near: usize) -> (Option<KeptChange>, usize)
    requires { AreRising (last_uids table.now) }
    ensures { result.0 ≡ last_in uid table.now }
{
    match find_near(table, uid, near) {
        Ok(place) => (Some(table[place]), place + 1),
        Err(place) => (None, place),
    }
}

/// Makes this the last change of its UID, in room that is there.
pub(crate) fn put_last(table: &mut Vec<KeptChange>, last: KeptChange)
    requires rising { AreRising (last_uids table.old.items) }
    requires room { vec_len table.old < vec_capacity table.old }
    ensures items { table.new.items ≡ put_in last table.old.items }
    ensures len { vec_len table.new ≤ vec_len table.old + 1 }
    ensures capacity { vec_capacity table.old ≤ vec_capacity table.new }
{
    match find_last(table.as_slice(), last.uid) {
        Ok(place) => table[place] = last,
        Err(place) => drop(table.insert(place, last)),
    }
}

/// Whether a message that is there has the UID and is seen.
fn is_counted(last: &KeptChange, messages: &[Message]) -> bool
    requires { AreRising (uids_in messages.now) }
    ensures { result ≡ (last.now.seen && is_among last.now.uid (uids_in messages.now)) }
{
    last.seen && find_message(messages, last.uid).is_some()
}

/// Returns how many of the messages are seen, by a search for each entry.
pub(crate) fn count_seen(table: &[KeptChange], messages: &[Message]) -> usize
    requires table { AreRising (last_uids table.now) }
    requires messages { AreRising (uids_in messages.now) }
    ensures count { result ≡ count_by (λ uid. is_set (last_in uid table.now)) (uids_in messages.now) }
    ensures most { result ≤ length table.now }
{
    table
        .iter()
        .filter(|last| is_counted(last, messages))
        .count()
}
