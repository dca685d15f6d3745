//! Changes of the flag `\Seen`, which each user has apart.

ghost use Rattle.std.specs.Prelude.{◌≡◌, ℕ, ◌+◌, ◌<◌, ◌≤◌, [], ◌∷◌, ◌++◌, true, length, nat_lt, slice_index, Some, option_map, OnOk, IfSome};
ghost use Rattle.std.specs.Prelude.{◌↔◌, IsTrue};
ghost use Rattle.imap_modseq.specs.Merge.{AreInOrder};
ghost use Rattle.imap_modseq.specs.Numbers.{max_events, own_before, own_number_at};
ghost use Rattle.imap_mailbox.specs.Counted.{seen_among, seen_after, without_gone, with_count};
ghost use Rattle.imap_mailbox.specs.KeptRows.{dropped_for, place_if_free};
ghost use Rattle.imap_mailbox.specs.Late.{AreEarly};
ghost use Rattle.imap_mailbox.specs.Own.{no_own, with_change, with_kept};
ghost use Rattle.imap_mailbox.specs.Rows.{is_among};
ghost use Rattle.imap_mailbox.specs.Summary.{latest, latest_number, latest_seen, shown};
ghost use Rattle.imap_mailbox.specs.Summary.{AreRising, uids_in, gone_uids};
ghost use Rattle.imap_mailbox.specs.declared.kept_change.KeptChange as kept;

use crate::copies::copy_items;
use crate::kept_change::KeptChange;
use crate::latest::{count_seen, last_near, last_of, put_last};
use crate::message::{GoneMessage, Message};
use crate::recent_events::RecentEvents;
use imap_modseq::{OwnRuns, number_after};
use imap_syntax::are_same;
use imap_values::TryCopy;
use std::alloc::{AllocError, Global};
use std::marker::Model;

/// A change of a user's own `\Seen`.
#[derive(Clone, Copy)]
pub struct SeenChange {
    /// The number of shared events before it.
    pub before: u64,
    pub uid: u32,
    /// Whether it sets the flag.
    pub seen: bool,
}

/// What is asked of the own changes of one user.
#[derive(Drop)]
pub struct OwnSeen {
    // For each change the number of shared events before it.
    befores: OwnRuns,

    // For each UID its last change, in the order of UIDs. A row is found by a search that halves: no choice
    // of UIDs makes it slow.
    latest: Vec<KeptChange>,

    // The number of messages that are there and whose flag is set.
    seen: usize,

    // Contracts see no more of it than that last changes are found by it.
    recent: RecentEvents,
}

impl Model for OwnSeen {
    ghost use Rattle.std.specs.Prelude.{◌-◌, min, vec_len};
    ghost use Rattle.std.specs.Vec.{vec_capacity};
    ghost use Rattle.imap_mailbox.specs.Latest.{IsOwnSeen, own_in};
    ghost use Rattle.imap_mailbox.specs.Owned.{Owned, owned_code};

    ghost Value = { Owned };

    ghost coded = { owned_code };

    ghost view = { λ o. record {
      own = own_in o.befores.befores o.latest.items;
      room = min o.befores.room (vec_capacity o.latest - vec_len o.latest);
      seen = o.seen;
    } };

    ghost invariant = { λ o.
        IsOwnSeen (own_in o.befores.befores o.latest.items) o.latest.items o.seen o.recent };
}

impl OwnSeen {
    /// No changes.
    pub(crate) fn new(alloc: Global) -> Self
        ensures own { result.own ≡ no_own }
        ensures seen { result.seen ≡ 0 }
    {
        OwnSeen {
            befores: OwnRuns::new(alloc),
            latest: Vec::new(alloc),
            seen: 0,
            recent: RecentEvents::new(alloc, 0),
        }
    }

    /// Makes room for `more` changes.
    pub(crate) fn reserve(&mut self, more: usize) -> Result<(), AllocError>
        ensures own { self.new.own ≡ self.old.own }
        ensures ok { OnOk result (more ≤ self.new.room) }
        ensures room { self.old.room ≤ self.new.room }
        ensures seen { self.new.seen ≡ self.old.seen }
    {
        self.recent.make_room()?;
        self.befores.reserve(more)?;
        self.latest.reserve(more)
    }

    /// Puts a change of a message at a place after all others, in room that was made before.
    pub(crate) fn push_reserved(&mut self, change: KeptChange)
        requires room { 0 < self.old.room }
        requires place { length self.old.own.befores ≤ change.place }
        requires few { change.place < max_events }
        requires before { change.before ≤ max_events }
        requires order { AreInOrder 0 change.before self.old.own.befores }
        ensures own { self.new.own ≡ with_kept change self.old.own }
        ensures room { self.old.room ≤ self.new.room + 1 }
        ensures seen { self.new.seen
            ≡ seen_after (latest_seen (latest change.uid self.old.own)) change.seen self.old.seen }
    {
        let was_seen = self.is_seen(change.uid);
        let more = change.place + 1 - self.befores.len();
        self.befores.push_reserved(change.before, more);
        put_last(&mut self.latest, change);
        self.recent.note_at(change.place, change.uid);
        self.seen = self.seen.saturating_sub(was_seen as usize) + change.seen as usize;
    }

    /// Appends a change of a message that is there, in room that was made before.
    pub(crate) fn push_next(&mut self, change: SeenChange)
        requires room { 0 < self.old.room }
        requires few { length self.old.own.befores < max_events }
        requires before { change.before ≤ max_events }
        requires order { AreInOrder 0 change.before self.old.own.befores }
        ensures own { self.new.own ≡ with_change change self.old.own }
        ensures room { self.old.room ≤ self.new.room + 1 }
        ensures seen { self.new.seen
            ≡ seen_after (latest_seen (latest change.uid self.old.own)) change.seen self.old.seen }
    {
        let place = self.len();
        self.push_reserved(KeptChange {
            place,
            before: change.before,
            uid: change.uid,
            seen: change.seen,
        });
    }

    /// Takes messages that are expunged out of the number of seen ones. They were there.
    pub(crate) fn forget(&mut self, gone: &[GoneMessage])
        ensures { self.new ≡ without_gone (gone_uids gone.now) self.old }
    {
        let seen = self.count_seen(gone);
        self.seen = self.seen.saturating_sub(seen);
    }

    /// Returns how many of the messages the user has seen. The look-up of each begins where that of the one
    /// before ended.
    fn count_seen(&self, gone: &[GoneMessage]) -> usize
        ensures { result ≡ seen_among self.now.own (gone_uids gone.now) }
    {
        let mut near = 0;
        let mut count = 0;
        for message in gone {
            count += self.is_seen_near(message.uid, &mut near) as usize;
        }
        count
    }

    /// Counts anew the messages that the user has seen, by a search for each UID that has a change.
    pub(crate) fn count(&mut self, messages: &[Message])
        requires { AreRising (uids_in messages.now) }
        ensures { self.new ≡ with_count (uids_in messages.now) self.old }
    {
        self.seen = count_seen(&self.latest, messages);
    }

    /// The number of messages that are there and that the user has seen.
    pub(crate) fn seen_len(&self) -> usize
        ensures { result ≡ self.now.seen }
    {
        self.seen
    }

    /// The number of changes, kept or not.
    pub(crate) fn len(&self) -> u64
        ensures len { result ≡ length self.now.own.befores }
        ensures few { result ≤ max_events }
    {
        self.befores.len()
    }

    /// Whether there are no changes.
    pub(crate) fn is_empty(&self) -> bool
        ensures { IsTrue result ↔ (self.now.own ≡ no_own) }
    {
        self.befores.len() == 0
    }

    /// Whether a change with `before` shared events before it may be the next.
    pub(crate) fn may_follow(&self, before: u64) -> bool
        ensures { IsTrue result ↔ AreInOrder 0 before self.now.own.befores }
    {
        self.befores.may_follow(before)
    }

    /// How many of the changes come before the shared event at `place`, by a search that halves.
    pub(crate) fn count_before(&self, place: u64) -> u64
        ensures count { result ≡ own_before self.now.own.befores place }
        ensures few { result ≤ max_events }
    {
        self.befores.count_before(place)
    }

    /// As [`OwnSeen::count_before`], at once if the changes before the event end at `near` or at the next shared
    /// event that has a change before it. `near` then says where they end.
    pub(crate) fn count_before_near(&self, place: u64, near: &mut usize) -> u64
        ensures count { result ≡ own_before self.now.own.befores place }
        ensures few { result ≤ max_events }
    {
        self.befores.count_before_near(place, near)
    }

    /// The mod-sequence of the change at `place`, by a search that halves.
    pub(crate) fn number_of(&self, place: u64) -> u64
        requires { place < length self.now.own.befores }
        ensures number { result ≡ own_number_at self.now.own.befores place }
        ensures rise { (earlier : ℕ) → earlier ≤ place → own_number_at self.now.own.befores earlier ≤ result }
    {
        number_after(self.befores.before(place), place)
    }

    /// The mod-sequence of the last change, or 0 if there is none.
    pub(crate) fn last_number(&self) -> u64
        ensures { (uid : ℕ) → latest_number (latest uid self.now.own) ≤ result }
    {
        let len = self.befores.len();
        if len == 0 { 0 } else { self.number_of(len - 1) }
    }

    /// The UIDs of the changes from a place on, among which are all whose last change is above a mod-sequence, if no
    /// change before the place is. `None` if some were forgotten.
    pub(crate) fn since(&self, place: u64) -> Option<&[u32]>
        ensures { IfSome result (λ uids. (number uid : ℕ) → AreEarly number place self.now.own.befores
            → number < latest_number (latest uid self.now.own) → is_among uid uids.now ≡ true) }
    {
        self.recent.since(place)
    }

    /// Whether the user's `\Seen` of the UID is set.
    pub(crate) fn is_seen(&self, uid: u32) -> bool
        ensures { result ≡ latest_seen (latest uid self.now.own) }
    {
        self.latest(uid).unwrap_or((0, false)).1
    }

    /// As [`OwnSeen::is_seen`], at once if `near` is the place of the UID. It is then that of the next UID.
    fn is_seen_near(&self, uid: u32, near: &mut usize) -> bool
        ensures { result ≡ latest_seen (latest uid self.now.own) }
    {
        self.latest_near(uid, near).unwrap_or((0, false)).1
    }

    /// The last change of the UID: its mod-sequence, and whether it set the flag.
    pub(crate) fn latest(&self, uid: u32) -> Option<(u64, bool)>
        ensures { result ≡ latest uid self.now.own }
    {
        shown(last_of(&self.latest, uid))
    }

    /// Whether the mod-sequence of the last change of the UID is above `number`, at once if `near` is the place
    /// of the UID. It is then that of the next UID.
    pub(crate) fn is_later(&self, uid: u32, number: u64, near: &mut usize) -> bool
        ensures { result ≡ nat_lt number (latest_number (latest uid self.now.own)) }
    {
        number < self.latest_near(uid, near).unwrap_or((0, false)).0
    }

    /// As [`OwnSeen::latest`], at once if `near` is the place of the UID. It is then that of the next UID.
    pub(crate) fn latest_near(&self, uid: u32, near: &mut usize) -> Option<(u64, bool)>
        ensures { result ≡ latest uid self.now.own }
    {
        let (last, next) = last_near(&self.latest, uid, *near);
        *near = next;
        shown(last)
    }

    /// The place of the change that goes when the UID is changed, if the next change has `before` shared events
    /// before it.
    pub(crate) fn dropped_by(&self, uid: u32, before: u64) -> Option<u64>
        ensures { result ≡ dropped_for uid before self.now.own }
    {
        match last_of(&self.latest, uid) {
            Some(last) => self.place_if_free(last, before),
            None => None,
        }
    }

    /// The place of a message's last change, if no shared event is between it and the next. After all changes there is
    /// one with `before` shared events before it.
    fn place_if_free(&self, last: KeptChange, before: u64) -> Option<u64>
        requires there { last.place < length self.now.own.befores }
        requires few { last.place ≤ max_events }
        ensures { result ≡ place_if_free (self.now.own.befores ++ before ∷ []) (Some last) }
    {
        if self.before_or(last.place + 1, before) == last.before {
            Some(last.place)
        } else {
            None
        }
    }

    /// How many shared events come before the change at `place`, or `other` if there is none.
    fn before_or(&self, place: u64, other: u64) -> u64
        requires { place ≤ length self.now.own.befores }
        ensures { result ≡ slice_index (self.now.own.befores ++ other ∷ []) place }
    {
        if place < self.befores.len() {
            self.befores.before(place)
        } else {
            other
        }
    }

    /// Whether both have the same changes, whatever their room.
    pub(crate) fn has_same(&self, other: &OwnSeen) -> bool
        ensures { IsTrue result ↔ (self.now.own ≡ other.now.own) }
    {
        self.befores.is_same(&other.befores) && are_same(&self.latest, &other.latest)
    }
}

/// The mod-sequence of a change, and whether it set the flag.
fn shown(last: Option<KeptChange>) -> Option<(u64, bool)>
    requires { (k : kept.KeptChange) → last ≡ Some k → (k.before ≤ max_events) × (k.place ≤ max_events) }
    ensures { result ≡ option_map shown last }
{
    match last {
        Some(last) => Some((number_after(last.before, last.place), last.seen)),
        None => None,
    }
}

impl TryCopy for OwnSeen {
    // The copy has the same room.
    fn try_copy(&self, alloc: Global) -> Result<OwnSeen, AllocError> {
        let befores = self.befores.try_copy(alloc)?;
        let latest = copy_items(alloc, &self.latest)?;
        let recent = self.recent.try_copy(alloc)?;
        Ok(OwnSeen {
            befores,
            latest,
            seen: self.seen,
            recent,
        })
    }
}
