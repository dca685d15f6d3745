//! What a session is told of its mailbox, and then knows.

ghost use Rattle.std.specs.Prelude.{◌≡◌, ◌+◌, ◌≤◌, length};
ghost use Rattle.imap_session.specs.Telling.{IsTellingOf, if_any, is_empty, known_with, room_for, telling_of};

use crate::delta::Delta;
use crate::known_list::KnownList;
use std::marker::Model;

/// What a session is told of its mailbox at the end of a command: a change of its known list, and the
/// mod-sequence up to which it was then told all. Contracts see the change by lists.
#[derive(Drop)]
pub struct KnownUpdate {
    delta: Delta,
    up_to: u64,
}

impl Model for KnownUpdate {
    ghost use Rattle.imap_session.specs.Telling.{Telling, telling_code, telling_of};

    ghost Value = { Telling };

    ghost coded = { telling_code };

    ghost view = { λ told. telling_of told.delta told.up_to };
}

impl KnownUpdate {
    /// Returns the change with the mod-sequence, or `None` if no message changed, left or came.
    pub(crate) fn if_any(delta: Delta, up_to: u64) -> Option<KnownUpdate>
        ensures { result ≡ if_any (telling_of delta up_to) }
    {
        let told = KnownUpdate { delta, up_to };
        if told.is_empty() { None } else { Some(told) }
    }

    fn is_empty(&self) -> bool
        ensures { result ≡ is_empty self.now }
    {
        let none_changed = !self.delta.changed;
        let none_gone = self.delta.gone.is_empty();
        let none_added = self.delta.added.is_empty();
        none_changed && (none_gone && none_added)
    }

    /// Returns the room that the change takes: one more than the number of messages that come.
    pub fn room_needed(&self) -> usize
        ensures { result ≡ room_for self.now }
    {
        self.delta.added.len() + 1
    }

    /// Makes the change of the known list, in room that is there, and returns the mod-sequence.
    pub(crate) fn apply(self, known: &mut KnownList) -> u64
        requires change { IsTellingOf known.old.list self }
        requires room { room_for self ≤ known.old.room }
        ensures list { known.new.list ≡ known_with self known.old.list }
        ensures room { known.old.room ≤ known.new.room + length self.added }
        ensures up_to { result ≡ self.up_to }
    {
        let KnownUpdate { delta, up_to } = self;
        known.apply(delta);
        up_to
    }
}
