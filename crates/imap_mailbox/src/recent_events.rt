//! The last events of a list: the shared ones, or the own changes of a user.

ghost use Rattle.std.specs.Prelude.{◌≡◌, ℕ, ◌+◌, ◌-◌, ◌<◌, ◌≤◌, ◌⊎◌, ◌∷◌, ◌++◌, [], drop, length, IfOk};
ghost use Rattle.std.specs.Prelude.{MatchOption};
ghost use Rattle.imap_mailbox.specs.declared.message.Message.{Message};
ghost use Rattle.imap_mailbox.specs.Recent.{IsNoted, IsNotedAt, IsRecent, end_of};
ghost use Rattle.imap_modseq.specs.Numbers.{max_events};

use crate::copies::copy_items;
use crate::message::GoneMessage;
use std::alloc::{AllocError, Global};
use std::marker::Model;

/// The greatest number of events that are noted.
const MAX_NOTED: usize = 64;

/// The UIDs of the last events, in their order. To note one takes no memory: where there is no room,
/// the older half is forgotten.
#[derive(Drop)]
pub struct RecentEvents {
    first: u64,
    uids: Vec<u32>,
}

impl Model for RecentEvents {
    ghost use Rattle.imap_mailbox.specs.Recent.{Recent, recent_code};

    ghost Value = { Recent };

    ghost coded = { recent_code };

    ghost view = { λ r. record { first = r.first; uids = r.uids.items } };
}

impl RecentEvents {
    /// Notes no event before `place`, which is that of the next one.
    pub(crate) fn new(alloc: Global, place: u64) -> RecentEvents
        ensures { result ≡ record { first = place; uids = [] } }
    {
        RecentEvents {
            first: place,
            uids: Vec::new(alloc),
        }
    }

    /// Returns an equal copy.
    pub(crate) fn try_copy(&self, alloc: Global) -> Result<RecentEvents, AllocError>
        ensures { IfOk result (λ copy. copy ≡ self.now) }
    {
        Ok(RecentEvents {
            first: self.first,
            uids: copy_items(alloc, &self.uids)?,
        })
    }

    /// Makes room, so that fewer are forgotten. Nothing rests on it.
    pub(crate) fn make_room(&mut self) -> Result<(), AllocError>
        ensures { self.new ≡ self.old }
    {
        self.uids.reserve(MAX_NOTED.saturating_sub(self.uids.len()))
    }

    /// Notes the next event.
    pub(crate) fn note(&mut self, uid: u32)
        requires { end_of self.old < max_events }
        ensures { IsNoted uid self.old self.new }
    {
        self.forget_if_full();
        self.push_or_forget(uid);
    }

    /// Notes the event at `place`. If it isn't the next, all before it are forgotten, and it too.
    pub(crate) fn note_at(&mut self, place: u64, uid: u32)
        requires after { end_of self.old ≤ place }
        requires few { place < max_events }
        ensures ends { end_of self.new ≡ place + 1 }
        ensures kept { (p u : ℕ) → IsNotedAt self.old p u → IsNotedAt self.new p u }
        ensures noted { IsNotedAt self.new place uid }
    {
        if place == self.end() {
            self.note(uid);
        } else {
            self.first = place + 1;
            self.uids.clear();
        }
    }

    /// The place of the next event.
    fn end(&self) -> u64
        requires { end_of self.now ≤ max_events }
        ensures { result ≡ end_of self.now }
    {
        self.first + self.uids.len() as u64
    }

    /// Notes an event of each of these messages.
    pub(crate) fn note_all(&mut self, gone: &[GoneMessage])
        requires { end_of self.old + length gone.now ≤ max_events }
        ensures ends { end_of self.new ≡ end_of self.old + length gone.now }
        ensures kept { (m : Message) → IsRecent self.old m → IsRecent self.new m }
    {
        for message in gone {
            self.note(message.uid);
        }
    }

    /// Notes the next event, or forgets it with all others if there is no room for it.
    fn push_or_forget(&mut self, uid: u32)
        requires { end_of self.old < max_events }
        ensures first { self.old.first ≤ self.new.first }
        ensures few { end_of self.new ≡ end_of self.old + 1 }
        ensures uids { self.new.uids ≡ drop (self.new.first - self.old.first) (self.old.uids ++ uid ∷ []) }
    {
        if self.uids.len() < self.uids.capacity() {
            self.uids.push_reserved(uid);
        } else {
            self.first += self.uids.len() as u64 + 1;
            self.uids.clear();
        }
    }

    /// Forgets the older half, if there is no room for one more.
    fn forget_if_full(&mut self)
        requires { end_of self.old < max_events }
        ensures first { self.old.first ≤ self.new.first }
        ensures within { self.new.first ≤ end_of self.old }
        ensures few { end_of self.new ≡ end_of self.old }
        ensures uids { self.new.uids ≡ drop (self.new.first - self.old.first) self.old.uids }
    {
        if self.uids.len() >= self.uids.capacity() {
            self.forget_half();
        }
    }

    /// Forgets the older half.
    fn forget_half(&mut self)
        requires { end_of self.old < max_events }
        ensures first { self.old.first ≤ self.new.first }
        ensures within { self.new.first ≤ end_of self.old }
        ensures few { end_of self.new ≡ end_of self.old }
        ensures uids { self.new.uids ≡ drop (self.new.first - self.old.first) self.old.uids }
    {
        let count = self.uids.len();
        let half = count - count / 2;
        self.uids.as_mut_slice().rotate_left(half);
        self.uids.truncate(count - half);
        self.first += half as u64;
    }

    /// The UIDs of the events from a place on, or `None` if not all of them are noted.
    pub(crate) fn since(&self, place: u64) -> Option<&[u32]>
        ensures { MatchOption result
            ((place < self.now.first) ⊎ (end_of self.now < place))
            (λ uids. (self.now.first ≤ place) × (uids.now ≡ drop (place - self.now.first) self.now.uids)) }
    {
        if place < self.first {
            return None;
        }
        let start = place - self.first;
        if start > self.uids.len() as u64 {
            return None;
        }
        Some(&self.uids.as_slice()[start as usize..])
    }
}
