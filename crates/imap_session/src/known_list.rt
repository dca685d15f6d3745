//! The messages that a session knows.
//!
//! If the last known UID is that of the message at its place in the mailbox, and messages before it have lower UIDs,
//! all known ones are there. Then mod-sequences alone are compared.

ghost use Rattle.std.specs.Prelude.{◌≡◌, ◌+◌, ◌<◌, ◌≤◌, [], length, nat_lt, slice_index_or, IfOk, OnOk};
ghost use Rattle.std.specs.List.{prefix_len};
ghost use Rattle.imap_mailbox.specs.Lent.{place_in, row_uids};
ghost use Rattle.imap_session.specs.Delta.{list_after, IsChangeOf};
ghost use Rattle.imap_session.specs.Held.{UidsRise};

use crate::delta::{Delta, change_uids};
use crate::shared_uids::{Place, make_own, reserve_in, share_in, shared};
use crate::uids::{copy_uids, count_lower, find_uid, uids_of};
use imap_mailbox::Rows;
use std::alloc::{AllocError, Global};
use std::marker::Model;
use std::sync::Arc;

/// The UIDs of the messages of the selected mailbox that a session was told of last, by their message sequence
/// numbers. They rise. Copies share them until they change.
pub struct KnownList {
    place: Place,
}

// Not derived: a derived one is proved anew in each crate that lets go of one.
impl Drop for KnownList {
    fn drop(self) {
        let KnownList { place: _ } = self;
    }
}

impl Model for KnownList {
    ghost use Rattle.imap_session.specs.Held.{HeldList, held_code, UidsRise};
    ghost use Rattle.imap_session.specs.Shared.{uids_in, room_at};

    ghost Value = { HeldList };

    ghost coded = { held_code };

    ghost view = { λ k. record { list = uids_in k.place; room = room_at k.place } };

    ghost invariant = { λ k. UidsRise (uids_in k.place) };
}

impl KnownList {
    /// Returns a list without messages.
    pub fn new(alloc: Global) -> KnownList
        ensures { result.list ≡ [] }
    {
        KnownList {
            place: Place::Own(Vec::new(alloc), None),
        }
    }

    /// Returns the list of a session that was told of all messages, as by SELECT (RFC 9051, section 6.3.2).
    pub fn of_rows(alloc: Global, rows: &Rows<'_>) -> Result<KnownList, AllocError>
        requires { UidsRise (row_uids rows.now) }
        ensures { IfOk result (λ known. known.list ≡ row_uids rows.now) }
    {
        let uids = uids_of(alloc, rows)?;
        Ok(KnownList {
            place: shared(alloc, uids)?,
        })
    }

    /// Returns a copy, which shares the UIDs if they are shared already. Its room may be another.
    pub fn try_copy(&self, alloc: Global) -> Result<KnownList, AllocError>
        ensures { IfOk result (λ copy. copy.list ≡ self.now.list) }
    {
        let place = match &self.place {
            Place::Own(uids, _) => shared(alloc, copy_uids(alloc, uids.as_slice())?)?,
            Place::Shared(uids) => Place::Shared(Arc::try_clone(uids)?),
        };
        Ok(KnownList { place })
    }

    /// The UIDs.
    pub(crate) fn uids(&self) -> &[u32]
        ensures list { result.now ≡ self.now.list }
        ensures valid { UidsRise self.now.list }
    {
        match &self.place {
            Place::Own(uids, _) => uids.as_slice(),
            Place::Shared(uids) => uids.as_slice(),
        }
    }

    /// The number of messages.
    pub fn len(&self) -> usize
        ensures count { result ≡ length self.now.list }
        ensures valid { UidsRise self.now.list }
    {
        self.uids().len()
    }

    /// The UID of the message at `place`, from 0: one less than its message sequence number.
    pub fn uid(&self, place: usize) -> u32
        requires { place < length self.now.list }
        ensures { result ≡ slice_index_or self.now.list place result }
    {
        self.uids()[place]
    }

    /// The number of messages with a lower UID, by a search that halves. It is the place of the first message
    /// with this UID or a greater one.
    pub fn place_from(&self, uid: u32) -> usize
        ensures place { result ≡ prefix_len (λ u. nat_lt u uid) self.now.list }
        ensures within { result ≤ length self.now.list }
    {
        count_lower(self.uids(), uid)
    }

    /// The place of the message with the UID, by a search that halves.
    pub fn place_of(&self, uid: u32) -> Option<usize>
        ensures { result ≡ place_in uid self.now.list }
    {
        find_uid(self.uids(), uid)
    }

    /// Makes room: none is taken by a list that stays. A change takes one more than the number of messages that
    /// come. Copies UIDs that are shared.
    pub fn reserve(&mut self, room: usize) -> Result<(), AllocError>
        ensures list { self.new.list ≡ self.old.list }
        ensures ok { OnOk result (room ≤ self.new.room) }
        ensures room { self.old.room ≤ self.new.room }
    {
        if room == 0 {
            return Ok(());
        }
        make_own(&mut self.place)?;
        reserve_in(&mut self.place, room - 1)
    }

    /// Makes a change, in room that is there.
    pub fn apply(&mut self, delta: Delta)
        requires change { IsChangeOf self.old.list delta }
        requires room { length delta.added.items < self.old.room }
        ensures list { self.new.list ≡ list_after delta self.old.list }
        ensures room { self.old.room ≤ self.new.room + length delta.added.items }
    {
        match &mut self.place {
            Place::Own(uids, _) => change_uids(uids, &delta),
            Place::Shared(_) => {}
        }
    }

    /// Lets copies share the UIDs, and gives up the room.
    pub fn share(&mut self)
        ensures { self.new.list ≡ self.old.list }
    {
        share_in(&mut self.place)
    }
}
